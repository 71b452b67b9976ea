//! Writing all bytes of a frame or of some numbers, or none of them.
ghost use Rattle.std.specs.Prelude.{◌≡◌, ◌<◌, ◌≤◌, ◌^◌, ◌++◌, length, take, drop, IfErr};
ghost use Rattle.wtp_core.specs.Varint.{shortest};
ghost use Rattle.wtp_wire.specs.Content.{payload_in};
ghost use Rattle.wtp_wire.specs.Wire.{wire};
ghost use Rattle.wtp_sending.specs.Writing.{WritesAll, Lacks, LacksOrFails, two_numbers, three_numbers};

use crate::error::SendError;
use std::alloc::Global;
use wtp_core::bytes::{BufferWriter, BytesWriter};
use wtp_core::varint::VarInt;
use wtp_wire::frame::Frame;

/// Writes the bytes.
pub(crate) fn put_all<W: BytesWriter>(bytes: &[u8], out: &mut W) -> Result<(), SendError>
    ensures written { WritesAll bytes.now result (W.written out.old) (W.room out.old)
        (W.written out.new) (W.room out.new) }
    ensures lacks { IfErr result (λ e. Lacks W.grows (W.room out.old) (length bytes.now) e) }
    ensures target { W.target out.new ≡ W.target out.old }
{
    match out.put_bytes(bytes) {
        Ok(()) => Ok(()),
        Err(error) => Err(SendError::from(error)),
    }
}

/// Writes a number in its shortest encoding.
pub(crate) fn put_one<W: BytesWriter>(number: VarInt, out: &mut W) -> Result<(), SendError>
    ensures written { WritesAll (shortest number) result (W.written out.old) (W.room out.old)
        (W.written out.new) (W.room out.new) }
    ensures lacks { IfErr result
        (λ e. Lacks W.grows (W.room out.old) (length (shortest number)) e) }
    ensures target { W.target out.new ≡ W.target out.old }
{
    match out.put_varint(number) {
        Ok(()) => Ok(()),
        Err(error) => Err(SendError::from(error)),
    }
}

/// Writes two numbers, each in its shortest encoding.
pub(crate) fn put_two<W: BytesWriter>(
    first: VarInt,
    second: VarInt,
    out: &mut W,
) -> Result<(), SendError>
    ensures written { WritesAll (two_numbers first second) result (W.written out.old)
        (W.room out.old) (W.written out.new) (W.room out.new) }
    ensures lacks { IfErr result
        (λ e. Lacks W.grows (W.room out.old) (length (two_numbers first second)) e) }
    ensures target { W.target out.new ≡ W.target out.old }
{
    let (bytes, len) = two_bytes(first, second);
    put_all(&bytes[..len], out)
}

/// Returns two numbers in their shortest encodings, one after the other, and their size in bytes.
fn two_bytes(first: VarInt, second: VarInt) -> ([u8; 16], usize)
    ensures bytes { take result.1 result.0 ≡ two_numbers first second }
    ensures most { result.1 ≤ 16 }
{
    let mut bytes = [0; 16];
    let one = encode(first, &mut bytes);
    let two = encode(second, &mut bytes[one..]);
    (bytes, one + two)
}

/// Writes three numbers, each in its shortest encoding.
pub(crate) fn put_three<W: BytesWriter>(
    first: VarInt,
    second: VarInt,
    third: VarInt,
    out: &mut W,
) -> Result<(), SendError>
    ensures written { WritesAll (three_numbers first second third) result (W.written out.old)
        (W.room out.old) (W.written out.new) (W.room out.new) }
    ensures lacks { IfErr result
        (λ e. Lacks W.grows (W.room out.old) (length (three_numbers first second third)) e) }
    ensures target { W.target out.new ≡ W.target out.old }
{
    let (bytes, len) = three_bytes(first, second, third);
    put_all(&bytes[..len], out)
}

/// Returns three numbers in the same way.
fn three_bytes(first: VarInt, second: VarInt, third: VarInt) -> ([u8; 24], usize)
    ensures bytes { take result.1 result.0 ≡ three_numbers first second third }
    ensures most { result.1 ≤ 24 }
{
    let mut bytes = [0; 24];
    let one = encode(first, &mut bytes);
    let two = encode(second, &mut bytes[one..]);
    let three = encode(third, &mut bytes[one + two..]);
    (bytes, one + two + three)
}

/// Writes the shortest encoding to the start of the buffer, and returns its size in bytes.
fn encode(number: VarInt, buffer: &mut [u8]) -> usize
    requires { 8 ≤ length buffer.old }
    ensures bytes { buffer.new ≡ shortest number ++ drop result buffer.old }
    ensures size { result ≡ length (shortest number) }
    ensures most { result ≤ 8 }
{
    let size = number.size();
    let mut writer = BufferWriter::new(buffer);
    let put = writer.put_varint(number);
    prove!(put.is_ok());
    size
}

/// Writes a frame. It is first put together in memory of its own.
pub(crate) fn put_frame<W: BytesWriter>(
    alloc: Global,
    frame: &Frame<'_>,
    out: &mut W,
) -> Result<(), SendError>
    ensures written { WritesAll (wire frame.now) result (W.written out.old) (W.room out.old)
        (W.written out.new) (W.room out.new) }
    ensures lacks { IfErr result (λ e. LacksOrFails (W.room out.old) (length (wire frame.now)) e) }
    ensures fits { length (payload_in frame.now) < 2 ^ 62 }
    ensures target { W.target out.new ≡ W.target out.old }
{
    let _payload = frame.payload();
    let mut bytes = Vec::new(alloc);
    if frame.write(&mut bytes).is_err() {
        return Err(SendError::Memory);
    }
    put_all(bytes.as_slice(), out)
}
