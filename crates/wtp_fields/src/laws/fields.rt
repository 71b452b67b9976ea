//! Laws of field lists, and of their header maps.
ghost use Rattle.std.specs.Prelude.{◌≡◌, ◌≤◌, ℕ, List, [], Ok, None};
ghost use Rattle.wtp_core.specs.Ids.{IsStatus};
ghost use Rattle.wtp_qpack.specs.Field.{Field, AreOctets, field_map, field_value, last_value};
ghost use Rattle.wtp_qpack.specs.FieldSection.{section_of, shortest_section};
ghost use Rattle.wtp_qpack.specs.FieldLines.{AreUtf8Fields};
ghost use Rattle.wtp_fields.specs.Headers.{headers_at};
ghost use Rattle.wtp_fields.specs.SessionRequest.{fault_of, five_fields};
ghost use Rattle.wtp_fields.specs.SessionResponse.{status_alone};
ghost use Rattle.wtp_fields.specs.FieldList.{Reaches, list_size};
ghost use Rattle.wtp_fields.specs.FieldMessages.{request_fault, status_of, HasStatusOf};
ghost use Rattle.wtp_fields.specs.FieldWriting.{request_fields};

/// A section with UTF-8 fields is decoded to the map of its list, whatever limit the list was
/// decoded with. A list is a valid request exactly if its map is, with the same error and the same
/// values. If a list has a status code, its map has the same one.
pub fn maps_of_lists()
    ensures map { (limit : ℕ) (section : List ℕ) (fields : List Field)
        → Reaches limit section fields [] → AreUtf8Fields fields
        → headers_at section ≡ Ok (field_map fields) }
    ensures fault { (fields : List Field) → request_fault fields ≡ fault_of (field_map fields) }
    ensures value { (fields : List Field) (name : List ℕ)
        → last_value name fields ≡ field_value name (field_map fields) }
    ensures status { (fields : List Field) (code : ℕ) → status_of fields ≡ Ok code
        → HasStatusOf code (field_map fields) }
{}

/// The encoding of a list is decoded to the same list, with any limit that its size does not
/// exceed, and so is the section of a header map with these fields. A section is decoded to one list
/// only. The list of a request is a valid request,
/// with the map of [`SessionRequest`](crate::session::SessionRequest). The list of a response has
/// its status code.
pub fn sent_lists()
    ensures again { (limit : ℕ) (fields : List Field) → AreOctets fields
        → list_size fields ≤ limit → Reaches limit (shortest_section fields) fields [] }
    ensures map_again { (limit : ℕ) (fields : List Field) → AreOctets fields
        → list_size fields ≤ limit → Reaches limit (section_of fields) fields [] }
    ensures only { (limit bound : ℕ) (section : List ℕ) (fields others : List Field)
        → Reaches limit section fields [] → Reaches bound section others [] → fields ≡ others }
    ensures request { (authority path : List ℕ)
        → request_fault (request_fields authority path) ≡ None }
    ensures map { (authority path : List ℕ)
        → field_map (request_fields authority path) ≡ five_fields authority path }
    ensures status { (code : ℕ) → IsStatus code → status_of (status_alone code) ≡ Ok code }
{}
