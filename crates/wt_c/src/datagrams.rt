//! HTTP Datagrams (RFC 9297, section 2.1).
ghost use Rattle.std.specs.Prelude.{◌≡◌, ◌⊎◌, ◌≤◌, ◌*◌, ◌/◌, ◌++◌, ℕ, List, length, drop, Some};
ghost use Rattle.std.specs.Prelude.{None};
ghost use Rattle.wtp_wire.specs.Datagram.{datagram_in, datagram_wire};
ghost use Rattle.wt_c.specs.Numbers.{IsSessionNumber};
ghost use Rattle.wt_c.specs.Datagrams.{datagram_head};
ghost use Rattle.wt_c.specs.Output.{WritesPrefix, TooShort};

use crate::numbers::session_of;
use crate::output::{size_before, write_number};
use crate::status::{BUFFER_TOO_SMALL, ERROR, INVALID, OK};
use wtp_core::ids::QStreamId;
use wtp_wire::datagram::Datagram;

/// Reads an HTTP Datagram from the payload of a QUIC datagram.
///
/// Returns `OK` with the session ID in `session`. The payload is all bytes from `offset` on.
/// Returns `ERROR` with the code `H3_DATAGRAM_ERROR` (0x33) if the bytes do not start with a
/// number below 2^60; `session` and `offset` are then unchanged. Only `ERROR` changes `code`.
#[unsafe(no_mangle)]
#[tactic(auto, using(crate::proofs::DatagramLemmas::payload_is_rest))]
pub extern "C" fn wt_datagram_read(
    bytes: &[u8],
    session: &mut u64,
    offset: &mut usize,
    code: &mut u64,
) -> i32
    ensures answers { (result ≡ OK) ⊎ (result ≡ ERROR) }
    ensures datagram { result ≡ OK → (quarter : ℕ) × (session.new ≡ 4 * quarter)
        × (datagram_in bytes.now ≡ Some (quarter, drop offset.new bytes.now))
        × (offset.new ≤ length bytes.now) × (code.new ≡ code.old) }
    ensures fault { result ≡ ERROR → (datagram_in bytes.now ≡ None) × (code.new ≡ 0x33)
        × (session.new ≡ session.old) × (offset.new ≡ offset.old) }
{
    match Datagram::read(bytes) {
        Ok(datagram) => {
            *session = datagram.qstream_id().into_session_id().into_u64();
            *offset = size_before(datagram.payload(), bytes);
            OK
        }
        Err(fault) => {
            *code = fault.to_code().into_inner();
            ERROR
        }
    }
}

/// Writes a datagram of a session to the start of `out`.
///
/// Returns `OK` with the size of the datagram in `used`. Returns `BUFFER_TOO_SMALL` if `out` is too
/// short; `used` is then the size of the datagram, and `out` is unchanged. Returns `INVALID` if
/// `session` is not a session ID; nothing is then changed.
#[unsafe(no_mangle)]
pub extern "C" fn wt_datagram_write(
    session: u64,
    payload: &[u8],
    out: &mut [u8],
    used: &mut usize,
) -> i32
    ensures answers { (result ≡ OK) ⊎ ((result ≡ BUFFER_TOO_SMALL) ⊎ (result ≡ INVALID)) }
    ensures bytes { result ≡ OK → IsSessionNumber session
        × WritesPrefix (datagram_wire (session / 4, payload.now)) out.old out.new used.new }
    ensures room { result ≡ BUFFER_TOO_SMALL → IsSessionNumber session
        × TooShort (datagram_wire (session / 4, payload.now)) out.old out.new used.new }
    ensures invalid { result ≡ INVALID → (¬ (IsSessionNumber session))
        × (out.new ≡ out.old) × (used.new ≡ used.old) }
{
    let Some(id) = session_of(session) else {
        return INVALID;
    };
    let datagram = Datagram::new(QStreamId::from_session_id(id), payload);
    *used = datagram.write_size();
    match datagram.write(out) {
        Ok(_) => OK,
        Err(_) => BUFFER_TOO_SMALL,
    }
}

/// Writes the header of a datagram of a session to the start of `out`, so the payload that
/// follows it need not be copied.
///
/// Returns the same results as `wt_datagram_write`, for the header only.
#[unsafe(no_mangle)]
pub extern "C" fn wt_datagram_write_head(session: u64, out: &mut [u8], used: &mut usize) -> i32
    ensures answers { (result ≡ OK) ⊎ ((result ≡ BUFFER_TOO_SMALL) ⊎ (result ≡ INVALID)) }
    ensures bytes { result ≡ OK → IsSessionNumber session
        × WritesPrefix (datagram_head (session / 4)) out.old out.new used.new }
    ensures room { result ≡ BUFFER_TOO_SMALL → IsSessionNumber session
        × TooShort (datagram_head (session / 4)) out.old out.new used.new }
    ensures invalid { result ≡ INVALID → (¬ (IsSessionNumber session))
        × (out.new ≡ out.old) × (used.new ≡ used.old) }
{
    match session_of(session) {
        Some(id) => write_number(QStreamId::from_session_id(id).into_varint(), out, used),
        None => INVALID,
    }
}

/// A datagram is the header that `wt_datagram_write_head` writes, followed by its payload.
pub fn datagram_is_head_and_payload()
    ensures { (quarter : ℕ) (payload : List ℕ)
        → datagram_wire (quarter, payload) ≡ datagram_head quarter ++ payload }
{}
