//! The `BytesWriter` trait, and its implementation for vectors.
ghost use Rattle.std.specs.Prelude.{◌≡◌, ℕ, List, Option, None, Bool, true};
ghost use Rattle.std.specs.Borrow.{GName};
ghost use Rattle.wtp_core.specs.Varint.{shortest};
ghost use Rattle.wtp_core.specs.Writer.{WritesPrefix};

use crate::varint::VarInt;

/// The reason why bytes were not written.
#[derive(Debug, Drop, PartialEq, Eq, thiserror::Error)]
pub enum PutError {
    /// There is too little space left.
    #[error("end of buffer has been reached")]
    EndOfBuffer,
    /// Memory allocation failed.
    #[error("no memory")]
    Memory,
}

/// Appends variable-length integers and bytes to a list of bytes.
pub trait BytesWriter {
    // Whether the writer allocates, so that it may run out of memory.
    ghost grows: { Bool };

    // The bytes written.
    ghost written: { Self → List ℕ };

    // The bytes in the space left, which writing replaces, or `None` if the space is unlimited.
    ghost room: { Self → Option (List ℕ) };

    // The name of the borrow of the slice written into, if there is one. By it, the owner of the
    // slice knows that the bytes are in it afterwards.
    ghost target: { Self → Option GName };

    /// Writes all of the bytes, or changes nothing.
    ///
    /// Returns `EndOfBuffer` exactly if too little space is left, and `Memory` only if memory
    /// allocation failed.
    fn put_bytes(&mut self, bytes: &[u8]) -> Result<(), PutError>
        ensures puts { WritesPrefix grows bytes.now result (written self.old) (room self.old)
            (written self.new) (room self.new) }
        ensures target { target self.new ≡ target self.old };

    /// Writes the shortest encoding of a variable-length integer (RFC 9000, section 16), or changes
    /// nothing. Returns the errors of `put_bytes`.
    #[tactic(auto, unfolding(crate::specs::Varint::shortest))]
    fn put_varint(&mut self, varint: VarInt) -> Result<(), PutError>
        ensures puts { WritesPrefix grows (shortest varint) result (written self.old) (room self.old)
            (written self.new) (room self.new) }
        ensures target { target self.new ≡ target self.old }
    {
        let number = varint.into_inner();
        if number < 0x40 {
            self.put_bytes(&[number as u8])
        } else if number < 0x4000 {
            self.put_bytes(&(0x4000 + number as u16).to_be_bytes())
        } else if number < 0x4000_0000 {
            self.put_bytes(&(0x8000_0000 + number as u32).to_be_bytes())
        } else {
            self.put_bytes(&(0xc000_0000_0000_0000 + number).to_be_bytes())
        }
    }
}

impl BytesWriter for Vec<u8> {
    ghost grows = { true };

    ghost written = { λ v. v.items };

    ghost room = { λ v. None };

    ghost target = { λ v. None };

    fn put_bytes(&mut self, bytes: &[u8]) -> Result<(), PutError> {
        match self.extend_from_slice(bytes) {
            Ok(()) => Ok(()),
            Err(_) => Err(PutError::Memory),
        }
    }
}
