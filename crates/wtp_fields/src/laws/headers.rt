//! Laws of header maps and their payloads.
ghost use Rattle.std.specs.Prelude.{◌≡◌, ◌↔◌, ℕ, List, Some, Ok, map, if◌then◌else◌};
ghost use Rattle.std.specs.Str.{bytes_eq};
ghost use Rattle.wtp_wire.specs.Content.{payload_in, HeadersOf};
ghost use Rattle.wtp_qpack.specs.Field.{Field, IsMap, AreTexts, put, field_value};
ghost use Rattle.wtp_qpack.specs.FieldSection.{map_at};
ghost use Rattle.wtp_fields.specs.Headers.{payload, headers_at};
ghost use Rattle.wtp_fields.specs.SessionRequest.{reserved_names};

use crate::session::SessionRequest;

/// Putting a field into a map sets the value of its name, and leaves the values of all other names
/// unchanged.
pub fn header_maps()
    ensures value { (m : List Field) (field : Field) (name : List ℕ)
        → field_value name (put m field)
        ≡ (if bytes_eq field.0 name then Some field.1 else field_value name m) }
    ensures ordered { (m : List Field) (field : Field) → IsMap m → IsMap (put m field) }
{}

/// A header map and its payload determine each other: decoding the payload gives the map, and two
/// maps are equal exactly if their payloads are. So the frame of a map is read as that map.
pub fn header_payloads()
    ensures again { (m : List Field) → IsMap m → AreTexts m → map_at (payload m) ≡ Ok m }
    ensures same { (m n : List Field) → IsMap m → AreTexts m → IsMap n → AreTexts n
        → (m ≡ n) ↔ (payload m ≡ payload n) }
    ensures frame { (m : List Field) → IsMap m → AreTexts m
        → headers_at (payload_in (HeadersOf (payload m))) ≡ Ok m }
{}

/// The names that a request reserves are those that
/// [`SessionRequest::insert`](crate::session::SessionRequest::insert) rejects.
pub fn reserved_headers() -> &'static [&'static str]
    ensures { map (λ name. name.now) result.now ≡ reserved_names }
{
    SessionRequest::RESERVED_HEADERS
}
