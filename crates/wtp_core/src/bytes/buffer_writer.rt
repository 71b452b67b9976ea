//! A writer into a slice of bytes.
ghost use Rattle.std.specs.Prelude.{◌≡◌, ◌≤◌, [], length, Some, false};

use crate::bytes::writer::{BytesWriter, PutError};

/// Writes into a slice, from its start. It does not allocate.
#[derive(Debug, Drop)]
pub struct BufferWriter<'a> {
    buffer: &'a mut [u8],
    offset: usize,
    ghost within: { offset ≤ length buffer.now },
}

impl<'a> BufferWriter<'a> {
    ghost use Rattle.wtp_core.specs.BufferWriter.{written_in, room_in, loan_of};

    /// Creates a writer into the whole slice, positioned at its start.
    pub fn new(buffer: &'a mut [u8]) -> Self
        ensures loan { loan_of result ≡ buffer.entry.ghost_name }
        ensures written { written_in result ≡ [] }
        ensures room { room_in result ≡ buffer.old }
    {
        BufferWriter { buffer, offset: 0 }
    }

    /// Returns the number of bytes that can still be written.
    pub fn capacity(&self) -> usize
        ensures { result ≡ length (room_in self.now) }
    {
        self.buffer.len() - self.offset
    }

    /// Returns the number of bytes written.
    pub fn offset(&self) -> usize
        ensures { result ≡ length (written_in self.now) }
    {
        self.offset
    }

    /// Returns the bytes written.
    pub fn buffer_written(&self) -> &[u8]
        ensures { result.now ≡ written_in self.now }
    {
        &self.buffer[..self.offset]
    }
}

impl<'a> BytesWriter for BufferWriter<'a> {
    ghost use Rattle.wtp_core.specs.BufferWriter.{written_in, room_in, loan_of};

    ghost grows = { false };

    ghost written = { written_in };

    ghost room = { λ w. Some (room_in w) };

    ghost target = { λ w. Some (loan_of w) };

    fn put_bytes(&mut self, bytes: &[u8]) -> Result<(), PutError> {
        if self.capacity() < bytes.len() {
            return Err(PutError::EndOfBuffer);
        }
        let end = self.offset + bytes.len();
        self.buffer[self.offset..end].copy_from_slice(bytes);
        self.offset = end;
        Ok(())
    }
}
