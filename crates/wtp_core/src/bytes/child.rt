//! Child readers: they look ahead, and move their parent only when committed.
ghost use Rattle.std.specs.Prelude.{◌≡◌, ◌+◌, ◌≤◌, ◌↔◌, ℕ, List, drop, length, MatchOption, IfNone, IfSome, Some, None, OnOk, OnErr, IsOk};
ghost use Rattle.wtp_core.specs.Varint.{number_at, bytes_at};

use crate::bytes::EndOfBuffer;
use crate::bytes::buffer_reader::BufferReader;
use crate::bytes::reader::BytesReader;
use crate::varint::{VarInt, first_varint};

/// A reader that a child may move, such as `BufferReader`.
///
/// Make a function that uses a child generic over `P: ParentReader<'a>`. Its contract can then say
/// where `commit`, or dropping the child, leaves the parent. Callers may pass a `BufferReader`.
pub trait ParentReader<'a> {
    // All of the bytes.
    ghost whole: { Self → List ℕ };

    // The bytes after the position.
    ghost behind: { Self → List ℕ };

    /// Skips `len` bytes, or moves to the end if fewer are left.
    fn advance(&mut self, len: usize)
        ensures left { behind self.new ≡ drop len (behind self.old) }
        ensures whole { whole self.new ≡ whole self.old };

    /// Creates a child reader over the bytes left. Only its `commit` moves this reader.
    fn child(&mut self) -> BufferReaderChild<'a, '_, Self>
        ensures same_reference { result.parent.ghost_name ≡ self.entry.ghost_name }
        ensures same_parent { result.parent.now ≡ self.old }
        ensures buffer { result.buffer.now ≡ behind self.old }
        ensures start { result.offset ≡ 0 };
}

/// Returns the bytes from index `place` on, or no bytes if `place` is past the end.
pub(crate) fn bytes_from<'a>(bytes: &'a [u8], place: usize) -> &'a [u8]
    ensures { result.now ≡ drop place bytes.now }
{
    bytes.get(place..).unwrap_or(&[])
}

/// A reader over the bytes that its parent has left. It starts at position 0.
///
/// `commit` moves the parent past the bytes that were read. Dropping the child leaves the parent
/// unchanged.
#[derive(Debug, Drop)]
pub struct BufferReaderChild<'a, 'b, P = BufferReader<'a>> {
    parent: &'b mut P,
    buffer: &'a [u8],
    offset: usize,
}

impl<'a, 'b, P> BufferReaderChild<'a, 'b, P> {
    /// Creates a child of `parent` over `buffer`, the bytes that the parent has left.
    pub(crate) fn over(parent: &'b mut P, buffer: &'a [u8]) -> Self
        ensures same_reference { result.parent.ghost_name ≡ parent.entry.ghost_name }
        ensures same_parent { result.parent.now ≡ parent.old }
        ensures buffer { result.buffer.now ≡ buffer.now }
        ensures start { result.offset ≡ 0 }
    {
        BufferReaderChild {
            parent,
            buffer,
            offset: 0,
        }
    }
}

impl<'a, 'b, P: ParentReader<'a>> BufferReaderChild<'a, 'b, P> {
    ghost use Rattle.wtp_core.specs.Cursor.{left_in, offset_in, whole_in};

    /// Returns the number of bytes left.
    pub fn capacity(&self) -> usize
        ensures { result ≡ length (left_in self.now) }
    {
        self.buffer.len().saturating_sub(self.offset)
    }

    /// Returns the position: the number of bytes read by this child.
    pub fn offset(&self) -> usize
        ensures { result ≡ offset_in self.now }
    {
        self.offset
    }

    /// Returns the bytes that the parent has left.
    pub fn buffer(&self) -> &'a [u8]
        ensures { result.now ≡ whole_in self.now }
    {
        self.buffer
    }

    /// Returns the bytes left. The child does not move.
    pub fn buffer_remaining(&mut self) -> &'a [u8]
        ensures bytes { result.now ≡ left_in self.old }
        ensures unmoved { self.new ≡ self.old }
    {
        bytes_from(self.buffer, self.offset)
    }

    /// Skips `len` bytes. Returns an error if fewer are left; the child then does not move.
    pub fn skip(&mut self, len: usize) -> Result<(), EndOfBuffer>
        ensures ok { OnOk result (offset_in self.new ≡ offset_in self.old + len) }
        ensures err { OnErr result (offset_in self.new ≡ offset_in self.old) }
        ensures room { IsOk result ↔ (len ≤ length (left_in self.old)) }
        ensures same_reference { self.new.parent.ghost_name ≡ self.old.parent.ghost_name }
        ensures same_parent { self.new.parent.now ≡ self.old.parent.now }
        ensures same_buffer { whole_in self.new ≡ whole_in self.old }
    {
        if len > self.capacity() {
            return Err(EndOfBuffer);
        }
        self.offset += len;
        Ok(())
    }

    /// Moves the parent past the bytes that this child read.
    pub fn commit(self)
        ensures left { P.behind self.exit.0.now
            ≡ drop (offset_in self.entry) (P.behind self.entry.parent.now) }
        ensures whole { P.whole self.exit.0.now ≡ P.whole self.entry.parent.now }
    {
        let BufferReaderChild {
            parent,
            buffer: _,
            offset,
        } = self;
        parent.advance(offset);
    }
}

impl<'a, 'b, P: ParentReader<'a>> BytesReader<'a> for BufferReaderChild<'a, 'b, P> {
    ghost use Rattle.wtp_core.specs.Cursor.{left_in, offset_in, kept_in};

    ghost left = { left_in };

    ghost kept = { kept_in P.whole P.behind };

    fn get_varint(&mut self) -> Option<VarInt>
        ensures found { MatchOption result (number_at (left_in self.old) ≡ None)
            (λ n. number_at (left_in self.old) ≡ Some (n, left_in self.new)) }
        ensures none { IfNone result (left_in self.new ≡ left_in self.old) }
        ensures place { offset_in self.new + length (left_in self.new)
            ≡ offset_in self.old + length (left_in self.old) }
        ensures kept { kept_in P.whole P.behind self.new ≡ kept_in P.whole P.behind self.old }
        ensures same_reference { self.new.parent.ghost_name ≡ self.old.parent.ghost_name }
        ensures same_parent { self.new.parent.now ≡ self.old.parent.now }
        ensures same_buffer { self.new.buffer.now ≡ self.old.buffer.now }
    {
        let (number, size) = first_varint(bytes_from(self.buffer, self.offset))?;
        self.offset += size;
        Some(number)
    }

    #[tactic(auto, unfolding(crate::specs::Varint::bytes_at))]
    fn get_bytes(&mut self, len: usize) -> Option<&'a [u8]>
        ensures found { MatchOption result (bytes_at len (left_in self.old) ≡ None)
            (λ b. bytes_at len (left_in self.old) ≡ Some (b.now, left_in self.new)) }
        ensures len { IfSome result (λ b. length b.now ≡ len) }
        ensures none { IfNone result (left_in self.new ≡ left_in self.old) }
        ensures place { offset_in self.new + length (left_in self.new)
            ≡ offset_in self.old + length (left_in self.old) }
        ensures kept { kept_in P.whole P.behind self.new ≡ kept_in P.whole P.behind self.old }
        ensures same_reference { self.new.parent.ghost_name ≡ self.old.parent.ghost_name }
        ensures same_parent { self.new.parent.now ≡ self.old.parent.now }
        ensures same_buffer { self.new.buffer.now ≡ self.old.buffer.now }
    {
        let rest = bytes_from(self.buffer, self.offset);
        let front = rest.get(..len)?;
        self.offset += len;
        Some(front)
    }
}
