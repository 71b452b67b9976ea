//! The bits of a byte.

ghost use Rattle.std.specs.Prelude.{◌≡◌, ◌<◌};
ghost use Rattle.wtp_qpack.specs.FieldLine.{bit};

/// Returns whether a bit is set, where the lowest bit is 0.
pub fn has_bit(byte: u8, place: u32) -> bool
    requires { place < 8 }
    ensures { result ≡ bit place byte }
{
    byte >> place & 1 == 1
}
