//! Frames and stream headers as far as they are alike: one is read whole from a buffer, and its parts
//! are written.
ghost use Rattle.std.specs.Prelude.{◌≡◌, ◌≤◌, ◌<◌, ◌^◌, ℕ, List, length, Result, Option, IsOk, OnOk, OnErr, Err, ◌↔◌};
ghost use Rattle.wtp_core.specs.BufferWriter.{room_in, loan_of, IsUnwritten, Wrote};
ghost use Rattle.wtp_core.specs.Cursor.{left_of, whole_of};
ghost use Rattle.wtp_core.specs.Writer.{LacksRoom, PutsParts, joined};
ghost use Rattle.wtp_wire.specs.Item.{item_parts, FitsTail, MovesPast};

use wtp_core::bytes::{BufferReader, BufferWriter, BytesWriter, EndOfBuffer, PutError};
use wtp_core::ids::SessionId;
use wtp_core::varint::VarInt;

/// What follows the type of an item.
#[derive(Clone, Copy)]
pub(crate) enum Tail<'a> {
    /// Nothing.
    Nothing,
    /// A session ID.
    Session(SessionId),
    /// The length of a payload, and the payload.
    Payload(&'a [u8]),
}

/// A frame, or the header of a stream.
pub(crate) trait Item<'a>: Sized {
    /// The reason why no item was read.
    type Fault;

    // Whether this is the result of reading these bytes; the others are those left afterwards.
    ghost is_read: { List ℕ → Result (Option Self) Self.Fault → List ℕ → Type 0 };

    // The parts in order.
    ghost parts: { Self → List (List ℕ) };

    /// Reads the item at the start of a buffer.
    fn read_first(reader: &mut BufferReader<'a>) -> Result<Option<Self>, Self::Fault>
        ensures answer { is_read (left_of reader.old) result (left_of reader.new) }
        ensures whole { whole_of reader.new ≡ whole_of reader.old };

    /// Returns the type, and what follows it.
    fn head(&self) -> (VarInt, Tail<'_>)
        ensures parts { parts self.now ≡ item_parts result.0 result.1 }
        ensures fits { FitsTail result.1 };

    /// Returns the number of bytes of all parts.
    fn write_size(&self) -> usize
        ensures { result ≡ length (joined (parts self.now)) };
}

/// Reads the item at the start of a buffer, and moves past it. If there is none, the reader does
/// not move.
#[inline(always)]
pub(crate) fn read_from_buffer<'a, T: Item<'a>>(
    reader: &mut BufferReader<'a>,
) -> Result<Option<T>, T::Fault>
    ensures answer { (ahead : List ℕ) × T.is_read (left_of reader.old) result ahead
        × MovesPast result (left_of reader.old) ahead (left_of reader.new) }
    ensures whole { whole_of reader.new ≡ whole_of reader.old }
{
    let mut ahead = BufferReader::new(reader.buffer_remaining());
    let found = T::read_first(&mut ahead);
    if let Ok(Some(_)) = &found {
        reader.move_to(&ahead);
    }
    found
}

/// Writes the parts of an item in order, with each number in its shortest encoding. On an error, the
/// parts before the one that failed have been written.
#[inline(always)]
pub(crate) fn write<'a, T: Item<'a>, W: BytesWriter>(
    item: &T,
    writer: &mut W,
) -> Result<(), PutError>
    ensures parts { PutsParts W.grows (T.parts item.now) result (W.written writer.old)
        (W.room writer.old) (W.written writer.new) (W.room writer.new) }
    ensures full { result ≡ Err PutError.EndOfBuffer
        → LacksRoom (W.room writer.old) (length (joined (T.parts item.now))) }
    ensures target { W.target writer.new ≡ W.target writer.old }
{
    let (number, tail) = item.head();
    writer.put_varint(number)?;
    match tail {
        Tail::Nothing => Ok(()),
        Tail::Session(session_id) => writer.put_varint(session_id.into_varint()),
        Tail::Payload(payload) => {
            writer.put_varint(VarInt::from_u64_unchecked(payload.len() as u64))?;
            writer.put_bytes(payload)
        }
    }
}

/// Writes a whole item. Returns `EndOfBuffer` exactly if it does not fit; nothing is then written.
#[inline(always)]
pub(crate) fn write_to_buffer<'a, T: Item<'a>>(
    item: &T,
    writer: &mut BufferWriter<'_>,
) -> Result<(), EndOfBuffer>
    ensures room { IsOk result
        ↔ (length (joined (T.parts item.now)) ≤ length (room_in writer.old)) }
    ensures ok { OnOk result (Wrote (joined (T.parts item.now)) writer.old writer.new) }
    ensures err { OnErr result (IsUnwritten writer.old writer.new) }
    ensures loan { loan_of writer.new ≡ loan_of writer.old }
{
    if writer.capacity() < item.write_size() {
        return Err(EndOfBuffer);
    }
    let written = write(item, writer);
    prove!(written.is_ok());
    Ok(())
}
