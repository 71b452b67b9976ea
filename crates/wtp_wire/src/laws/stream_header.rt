//! Laws of stream headers.
ghost use Rattle.std.specs.Prelude.{◌≡◌, ◌≢◌, ◌++◌, ◌⊎◌, ℕ, List, Some};
ghost use Rattle.wtp_wire.specs.StreamKind.{IsStreamKind, stream_kind_of};
ghost use Rattle.wtp_wire.specs.Header.{Header};
ghost use Rattle.wtp_wire.specs.HeaderFront.{HeaderFront, Headed, Short, StreamBegins, header_extended, header_front};
ghost use Rattle.wtp_wire.specs.HeaderWire.{header_wire, IsReadableHeader};
ghost use Rattle.wtp_wire.specs.declared.stream_header.StreamKind.{StreamKind};

/// Computing the kind of a stream type agrees with its definition.
pub fn stream_kind_is_computed()
    ensures computed { (kind : StreamKind) (id : ℕ) → IsStreamKind kind id
        → stream_kind_of id ≡ Some kind }
    ensures defined { (kind : StreamKind) (id : ℕ) → stream_kind_of id ≡ Some kind
        → IsStreamKind kind id }
{}

/// Whatever case of `HeaderFront` a stream starts with, `header_front` computes it. So at most one
/// case holds, with one header and one remainder.
pub fn header_front_is_computed()
    ensures { (bytes : List ℕ) (c : HeaderFront) → StreamBegins bytes c → header_front bytes ≡ c }
{}

/// The bytes start with the case that `header_front` computes. If that is `Short`, no other case
/// holds.
pub fn one_header_front()
    ensures { (bytes : List ℕ)
        → StreamBegins bytes (header_front bytes)
        ⊎ ((header_front bytes ≡ Short) × ((c : HeaderFront) → StreamBegins bytes c → ⊥)) }
{}

/// Appending bytes does not change a case other than `Short`, except for its remainder.
pub fn header_front_stays()
    ensures { (bytes more : List ℕ) → header_front bytes ≢ Short
        → header_front (bytes ++ more) ≡ header_extended (header_front bytes) more }
{}

/// A written header is read back, whatever bytes follow it.
pub fn written_header_is_read()
    ensures { (h : Header) (rest : List ℕ) → IsReadableHeader h
        → header_front (header_wire h ++ rest) ≡ Headed h rest }
{}
