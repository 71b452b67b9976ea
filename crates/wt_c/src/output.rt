//! Offsets in the caller's input, and bytes written to its output.
ghost use Rattle.std.specs.Prelude.{◌≡◌, ◌⊎◌, ◌≤◌, ◌+◌, ◌++◌, length, drop};
ghost use Rattle.wtp_core.specs.BufferWriter.{Wrote, loan_of, room_in};
ghost use Rattle.wtp_core.specs.Reader.{IsRest};
ghost use Rattle.wtp_core.specs.Varint.{shortest};
ghost use Rattle.wt_c.specs.Output.{WritesPrefix, TooShort};

use crate::status::{BUFFER_TOO_SMALL, OK};
use wtp_core::bytes::{BufferWriter, BytesWriter};
use wtp_core::varint::VarInt;

/// Returns how many of the bytes come before `rest`, which is their end.
pub(crate) fn size_before(rest: &[u8], bytes: &[u8]) -> usize
    requires { IsRest rest.now bytes.now }
    ensures rest { drop result bytes.now ≡ rest.now }
    ensures within { result ≤ length bytes.now }
{
    bytes.len() - rest.len()
}

/// Writes bytes to the start of `out`.
///
/// Returns `OK`, or `BUFFER_TOO_SMALL` if `out` is too short; `out` is then unchanged. In both
/// cases `used` is the number of bytes.
pub(crate) fn write_bytes(bytes: &[u8], out: &mut [u8], used: &mut usize) -> i32
    ensures answers { (result ≡ OK) ⊎ (result ≡ BUFFER_TOO_SMALL) }
    ensures bytes { result ≡ OK → WritesPrefix bytes.now out.old out.new used.new }
    ensures room { result ≡ BUFFER_TOO_SMALL → TooShort bytes.now out.old out.new used.new }
{
    *used = bytes.len();
    if out.len() < *used {
        return BUFFER_TOO_SMALL;
    }
    let mut writer = BufferWriter::new(out);
    let written = writer.put_bytes(bytes);
    prove!(written.is_ok());
    OK
}

/// Writes the shortest encoding of a number. The results are those of `write_bytes`.
pub(crate) fn write_number(number: VarInt, out: &mut [u8], used: &mut usize) -> i32
    ensures answers { (result ≡ OK) ⊎ (result ≡ BUFFER_TOO_SMALL) }
    ensures bytes { result ≡ OK → WritesPrefix (shortest number) out.old out.new used.new }
    ensures room { result ≡ BUFFER_TOO_SMALL → TooShort (shortest number) out.old out.new used.new }
{
    *used = number.size();
    if out.len() < *used {
        return BUFFER_TOO_SMALL;
    }
    let mut writer = BufferWriter::new(out);
    let written = writer.put_varint(number);
    prove!(written.is_ok());
    OK
}

/// Writes the shortest encodings of two numbers. The results are those of `write_bytes`.
pub(crate) fn write_pair(first: VarInt, second: VarInt, out: &mut [u8], used: &mut usize) -> i32
    ensures answers { (result ≡ OK) ⊎ (result ≡ BUFFER_TOO_SMALL) }
    ensures bytes { result ≡ OK
        → WritesPrefix (shortest first ++ shortest second) out.old out.new used.new }
    ensures room { result ≡ BUFFER_TOO_SMALL
        → TooShort (shortest first ++ shortest second) out.old out.new used.new }
{
    *used = first.size() + second.size();
    if out.len() < *used {
        return BUFFER_TOO_SMALL;
    }
    let mut writer = BufferWriter::new(out);
    let front = writer.put_varint(first);
    prove!(front.is_ok());
    let back = writer.put_varint(second);
    prove!(back.is_ok());
    OK
}

/// Writes two byte strings, one after the other.
fn write_both(writer: &mut BufferWriter<'_>, first: &[u8], second: &[u8])
    requires { length first.now + length second.now ≤ length (room_in writer.old) }
    ensures wrote { Wrote (first.now ++ second.now) writer.old writer.new }
    ensures loan { loan_of writer.new ≡ loan_of writer.old }
{
    let front = writer.put_bytes(first);
    prove!(front.is_ok());
    let back = writer.put_bytes(second);
    prove!(back.is_ok());
}

/// Writes two byte strings, one after the other. The results are those of `write_bytes`.
pub(crate) fn write_parts(first: &[u8], second: &[u8], out: &mut [u8], used: &mut usize) -> i32
    ensures answers { (result ≡ OK) ⊎ (result ≡ BUFFER_TOO_SMALL) }
    ensures bytes { result ≡ OK → WritesPrefix (first.now ++ second.now) out.old out.new used.new }
    ensures room { result ≡ BUFFER_TOO_SMALL → TooShort (first.now ++ second.now) out.old out.new used.new }
{
    *used = first.len() + second.len();
    if out.len() < *used {
        return BUFFER_TOO_SMALL;
    }
    let mut writer = BufferWriter::new(out);
    write_both(&mut writer, first, second);
    OK
}
