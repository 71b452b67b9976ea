//! Capsules that close a session (WebTransport over HTTP/3, "Session Termination").
ghost use Rattle.std.specs.Prelude.{◌≡◌, ◌⊎◌, ◌≤◌, ◌<◌, length, drop, Some, None};
ghost use Rattle.std.specs.Prelude.{◌≢◌, [], IsUtf8};
ghost use Rattle.wtp_wire.specs.CloseSession.{close_in, close_wire};
ghost use Rattle.wt_c.specs.Output.{WritesPrefix, TooShort};

use crate::status::{BUFFER_TOO_SMALL, ERROR, INVALID, MEMORY, OK};
use std::alloc::Global;
use wtp_core::bytes::{BufferWriter, BytesWriter};
use wtp_core::error::ErrorCode;
use wtp_wire::capsule::CapsuleError;
use wtp_wire::capsule::capsules::CloseWebTransportSession;

/// Reads the value of a capsule that closes a session: a code of the application in four bytes, and
/// then a reason, which is all bytes after them.
///
/// Returns `OK` with the code. Returns `ERROR` with the code `H3_DATAGRAM_ERROR` (0x33) if the
/// value has fewer than 4 or more than 1028 bytes, or its reason is not UTF-8; then `reset` does
/// not change.
#[unsafe(no_mangle)]
pub extern "C" fn wt_close_read(value: &[u8], reset: &mut u32, code: &mut u64) -> i32
    ensures answers { (result ≡ OK) ⊎ (result ≡ ERROR) }
    ensures close { result ≡ OK → (close_in value.now ≡ Some (reset.new, drop 4 value.now))
        × (code.new ≡ code.old) }
    ensures fault { result ≡ ERROR → (close_in value.now ≡ None) × (code.new ≡ 0x33)
        × (reset.new ≡ reset.old) }
{
    match CloseWebTransportSession::code_and_reason(value) {
        Some((found, _)) => {
            *reset = found;
            OK
        }
        None => {
            *code = ErrorCode::Datagram.to_code().into_inner();
            ERROR
        }
    }
}

/// Writes the capsule that closes a session, with a code and a reason of the application, to the
/// start of `out`. It is the last of the data of the session's stream.
///
/// Returns `OK` with the size of the capsule in `used`. Returns `BUFFER_TOO_SMALL` if `out` is
/// shorter than that size, which `used` then is; `out` does not change. Returns `INVALID` if the
/// reason is not UTF-8 or has more than 1024 bytes. Otherwise returns `MEMORY` if allocation
/// failed, which does not happen for an empty reason. Then nothing changes.
#[unsafe(no_mangle)]
pub extern "C" fn wt_close_write(
    alloc: Global,
    reset: u32,
    reason: &[u8],
    out: &mut [u8],
    used: &mut usize,
) -> i32
    ensures answers { (result ≡ OK) ⊎ ((result ≡ BUFFER_TOO_SMALL) ⊎ ((result ≡ INVALID) ⊎ (result ≡ MEMORY))) }
    ensures bytes { result ≡ OK → IsUtf8 reason.now × (length reason.now ≤ 1024)
        × WritesPrefix (close_wire (reset, reason.now)) out.old out.new used.new }
    ensures room { result ≡ BUFFER_TOO_SMALL → IsUtf8 reason.now × (length reason.now ≤ 1024)
        × TooShort (close_wire (reset, reason.now)) out.old out.new used.new }
    ensures invalid { result ≡ INVALID → ((¬ (IsUtf8 reason.now)) ⊎ (1024 < length reason.now))
        × (out.new ≡ out.old) × (used.new ≡ used.old) }
    ensures memory { result ≡ MEMORY → IsUtf8 reason.now × (length reason.now ≤ 1024)
        × (reason.now ≢ []) × (out.new ≡ out.old) × (used.new ≡ used.old) }
{
    let Ok(text) = str::from_utf8(reason) else {
        return INVALID;
    };
    let close = match CloseWebTransportSession::new(alloc, reset, text) {
        Ok(close) => close,
        Err(CapsuleError::TooLong) => return INVALID,
        Err(CapsuleError::Memory) => return MEMORY,
    };
    write_close(&close, out, used)
}

/// Writes a capsule to the start of `out`, as `write_bytes` does.
fn write_close(close: &CloseWebTransportSession, out: &mut [u8], used: &mut usize) -> i32
    ensures answers { (result ≡ OK) ⊎ (result ≡ BUFFER_TOO_SMALL) }
    ensures bytes { result ≡ OK → WritesPrefix (close_wire close.now) out.old out.new used.new }
    ensures room { result ≡ BUFFER_TOO_SMALL → TooShort (close_wire close.now) out.old out.new used.new }
{
    *used = close.write_size();
    if out.len() < *used {
        return BUFFER_TOO_SMALL;
    }
    let mut writer = BufferWriter::new(out);
    let written = close.write(&mut writer);
    prove!(written.is_ok());
    OK
}
