//! A reader over a slice of bytes.
ghost use Rattle.std.specs.Prelude.{◌≡◌, ◌+◌, ◌-◌, ◌≤◌, ◌↔◌, ◌++◌, take, drop, length, OnOk, OnErr, IsOk};

use crate::bytes::EndOfBuffer;
use crate::bytes::child::{BufferReaderChild, ParentReader, bytes_from};
use crate::bytes::reader::BytesReader;
use crate::varint::{VarInt, first_varint};
use std::fmt;

/// A reader over a slice of bytes: the slice and a read position.
#[derive(Drop)]
pub struct BufferReader<'a> {
    buffer: &'a [u8],
    rest: &'a [u8],
    // The bytes left are a suffix of the slice.
    ghost within: { length rest.now ≤ length buffer.now },
    ghost tail: { drop (length buffer.now - length rest.now) buffer.now ≡ rest.now },
}

impl<'a> BufferReader<'a> {
    ghost use Rattle.wtp_core.specs.Cursor.{left_of, offset_of, whole_of, MovesBy};

    /// Creates a reader of the whole slice, positioned at its start.
    pub fn new(buffer: &'a [u8]) -> Self
        ensures whole { whole_of result ≡ buffer.now }
        ensures left { left_of result ≡ buffer.now }
    {
        BufferReader {
            buffer,
            rest: buffer,
        }
    }

    /// Returns the number of bytes left.
    pub fn capacity(&self) -> usize
        ensures { result ≡ length (left_of self.now) }
    {
        self.rest.len()
    }

    /// Returns the position: the number of bytes read or skipped.
    pub fn offset(&self) -> usize
        ensures place { result ≡ offset_of self.now }
        ensures sum { result + length (left_of self.now) ≡ length (whole_of self.now) }
        ensures parts { whole_of self.now ≡ take result (whole_of self.now) ++ left_of self.now }
    {
        self.buffer.len() - self.rest.len()
    }

    /// Returns the whole slice.
    pub fn buffer(&self) -> &'a [u8]
        ensures { result.now ≡ whole_of self.now }
    {
        self.buffer
    }

    /// Returns the bytes left. The reader does not move.
    pub fn buffer_remaining(&mut self) -> &'a [u8]
        ensures bytes { result.now ≡ left_of self.old }
        ensures unmoved { self.new ≡ self.old }
    {
        self.rest
    }

    /// Skips `len` bytes. Returns an error if fewer are left; the reader then does not move.
    pub fn skip(&mut self, len: usize) -> Result<(), EndOfBuffer>
        ensures ok { OnOk result (MovesBy len self.old self.new) }
        ensures err { OnErr result (self.new ≡ self.old) }
        ensures room { IsOk result ↔ (len ≤ length (left_of self.old)) }
    {
        if len > self.rest.len() {
            return Err(EndOfBuffer);
        }
        self.rest = &self.rest[len..];
        Ok(())
    }

    /// Moves to the position of `ahead`, which must be a reader over the bytes left in this one.
    pub fn move_to(&mut self, ahead: &BufferReader<'a>)
        requires { whole_of ahead.now ≡ left_of self.old }
        ensures left { left_of self.new ≡ left_of ahead.now }
        ensures whole { whole_of self.new ≡ whole_of self.old }
    {
        self.rest = ahead.rest;
    }

    /// Creates a child reader over the bytes left. Only its `commit` moves this reader.
    ///
    /// A caller whose proof needs this reader's position afterwards should be generic over `P:
    /// ParentReader`.
    pub fn child(&mut self) -> BufferReaderChild<'a, '_>
        ensures same_reference { result.parent.ghost_name ≡ self.entry.ghost_name }
        ensures same_parent { result.parent.now ≡ self.old }
        ensures buffer { result.buffer.now ≡ left_of self.old }
        ensures start { result.offset ≡ 0 }
    {
        let rest = self.rest;
        BufferReaderChild::over(self, rest)
    }
}

impl<'a> ParentReader<'a> for BufferReader<'a> {
    ghost use Rattle.wtp_core.specs.Cursor.{left_of, whole_of};

    ghost whole = { whole_of };

    ghost behind = { left_of };

    fn advance(&mut self, len: usize) {
        self.rest = bytes_from(self.rest, len);
    }

    fn child(&mut self) -> BufferReaderChild<'a, '_, Self> {
        let rest = self.rest;
        BufferReaderChild::over(self, rest)
    }
}

impl<'a> BytesReader<'a> for BufferReader<'a> {
    ghost use Rattle.wtp_core.specs.Cursor.{left_of, whole_of};
    ghost use Rattle.wtp_core.specs.Reader.{kept_alone};

    ghost left = { left_of };

    ghost kept = { λ r. kept_alone (whole_of r) };

    #[inline(always)]
    fn get_varint(&mut self) -> Option<VarInt> {
        let (number, size) = first_varint(self.rest)?;
        self.rest = &self.rest[size..];
        Some(number)
    }

    #[inline(always)]
    #[tactic(auto, unfolding(crate::specs::Varint::bytes_at))]
    fn get_bytes(&mut self, len: usize) -> Option<&'a [u8]> {
        let (front, rest) = self.rest.split_at_checked(len)?;
        self.rest = rest;
        Some(front)
    }
}

impl fmt::Debug for BufferReader<'_> {
    fn fmt<W: fmt::Write>(&self, f: &mut fmt::Formatter<W>) -> fmt::Result {
        let buf = self.buffer;
        let off = self.offset();
        write!(f, "BufferReader {{ buf: {buf:?}, off: {off} }}")
    }
}
