//! Laws of datagrams.
ghost use Rattle.std.specs.Prelude.{◌≡◌, ◌<◌, ◌^◌, ℕ, List, Some};
ghost use Rattle.wtp_wire.specs.Datagram.{IsDatagram, datagram_in, datagram_wire};

/// Computing the datagram of the input agrees with its definition.
pub fn datagram_is_computed()
    ensures computed { (id : ℕ) (payload s : List ℕ) → IsDatagram id payload s
        → datagram_in s ≡ Some (id, payload) }
    ensures defined { (id : ℕ) (payload s : List ℕ) → datagram_in s ≡ Some (id, payload)
        → IsDatagram id payload s }
{}

/// A written datagram is read back, with the same quarter stream ID and payload.
pub fn written_datagram_is_read()
    ensures { (id : ℕ) (payload : List ℕ) → id < 2 ^ 60
        → datagram_in (datagram_wire (id, payload)) ≡ Some (id, payload) }
{}
