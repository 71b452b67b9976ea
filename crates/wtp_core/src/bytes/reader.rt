//! The `BytesReader` trait, and its implementation for slices.
ghost use Rattle.std.specs.Prelude.{◌≡◌, ℕ, List, length, MatchOption, IfNone, IfSome, Some, None};
ghost use Rattle.wtp_core.specs.Reader.{Kept};
ghost use Rattle.wtp_core.specs.Varint.{number_at, bytes_at};

use crate::varint::{VarInt, first_varint};

/// Reads variable-length integers and bytes from the start of a list of bytes.
pub trait BytesReader<'a> {
    // The bytes left.
    ghost left: { Self → List ℕ };

    // What reading leaves unchanged.
    ghost kept: { Self → Kept };

    /// Reads the variable-length integer at the start (RFC 9000, section 16). Accepts every
    /// encoding, not only the shortest. Returns `None` if too few bytes are left; the reader then
    /// does not move.
    fn get_varint(&mut self) -> Option<VarInt>
        ensures found { MatchOption result (number_at (left self.old) ≡ None)
            (λ n. number_at (left self.old) ≡ Some (n, left self.new)) }
        ensures none { IfNone result (left self.new ≡ left self.old) }
        ensures kept { kept self.new ≡ kept self.old };

    /// Reads `len` bytes. Returns `None` if fewer are left; the reader then does not move.
    fn get_bytes(&mut self, len: usize) -> Option<&'a [u8]>
        ensures found { MatchOption result (bytes_at len (left self.old) ≡ None)
            (λ b. bytes_at len (left self.old) ≡ Some (b.now, left self.new)) }
        ensures len { IfSome result (λ b. length b.now ≡ len) }
        ensures none { IfNone result (left self.new ≡ left self.old) }
        ensures kept { kept self.new ≡ kept self.old };
}

impl<'a> BytesReader<'a> for &'a [u8] {
    ghost use Rattle.std.specs.Prelude.{[]};
    ghost use Rattle.wtp_core.specs.Reader.{kept_alone};

    ghost left = { λ s. s.now };

    ghost kept = { λ _. kept_alone [] };

    #[inline(always)]
    fn get_varint(&mut self) -> Option<VarInt> {
        let bytes: &'a [u8] = *self;
        let (number, size) = first_varint(bytes)?;
        *self = &bytes[size..];
        Some(number)
    }

    #[inline(always)]
    #[tactic(auto, unfolding(crate::specs::Varint::bytes_at))]
    fn get_bytes(&mut self, len: usize) -> Option<&'a [u8]> {
        let (front, rest) = (*self).split_at_checked(len)?;
        *self = rest;
        Some(front)
    }
}
