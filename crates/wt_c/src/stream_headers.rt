//! Headers of unidirectional streams (RFC 9114, section 6.2).
ghost use Rattle.std.specs.Prelude.{◌≡◌, ◌≢◌, ◌⊎◌, ◌≤◌, IsTrue, length};
ghost use Rattle.wtp_wire.specs.Header.{Header};
ghost use Rattle.wtp_wire.specs.HeaderFront.{Short, header_front};
ghost use Rattle.wtp_wire.specs.HeaderWire.{header_wire};
ghost use Rattle.wt_c.specs.Output.{WritesPrefix, TooShort};
ghost use Rattle.wt_c.specs.StreamHeaders.{StartsWithHeader, HasHeaderFault, IsHeaderIn};

use crate::numbers::session_of;
use crate::output::{size_before, write_number, write_pair};
use crate::status::{BUFFER_TOO_SMALL, ERROR, INVALID, MORE, OK};
use wtp_core::error::ErrorCode;
use wtp_core::varint::VarInt;
use wtp_wire::stream_header::{StreamHeader, StreamKind, stream_type_ids};

/// The header of a unidirectional stream.
#[repr(C)]
#[derive(Clone, Copy)]
pub struct WtStreamHeader {
    /// The stream type.
    pub kind: u64,
    /// The session ID of a WebTransport stream; 0 for other streams.
    pub session: u64,
}

/// Reads the header at the start of a unidirectional stream.
///
/// Returns `OK` with the header in `header` and its length in `consumed`. Returns `MORE` if there
/// are too few bytes. Returns `ERROR` with the error code for an unknown type, after which the
/// stream is no longer read (RFC 9114, section 6.2), or for an invalid session ID. Unless the
/// result is `OK`, `consumed` is 0 and `header` is unchanged. Only `ERROR` changes `code`.
#[unsafe(no_mangle)]
pub extern "C" fn wt_stream_header_read(
    bytes: &[u8],
    consumed: &mut usize,
    header: &mut WtStreamHeader,
    code: &mut u64,
) -> i32
    ensures answers { (result ≡ OK) ⊎ ((result ≡ MORE) ⊎ (result ≡ ERROR)) }
    ensures header { result ≡ OK → StartsWithHeader bytes.now consumed.new header.new }
    ensures more { result ≡ MORE → header_front bytes.now ≡ Short }
    ensures fault { result ≡ ERROR → HasHeaderFault (header_front bytes.now) code.new }
    ensures none { result ≢ OK → (consumed.new ≡ 0) × (header.new ≡ header.old) }
    ensures code { result ≢ ERROR → code.new ≡ code.old }
    ensures within { consumed.new ≤ length bytes.now }
{
    *consumed = 0;
    let mut rest = bytes;
    match StreamHeader::read(&mut rest) {
        Ok(Some(found)) => {
            *consumed = size_before(rest, bytes);
            *header = WtStreamHeader {
                kind: found.kind().id().into_inner(),
                session: match found.session_id() {
                    Some(session) => session.into_u64(),
                    None => 0,
                },
            };
            OK
        }
        Ok(None) => MORE,
        Err(fault) => {
            *code = ErrorCode::from(fault).to_code().into_inner();
            ERROR
        }
    }
}

/// Returns whether the two numbers are a valid header.
#[tactic(auto, using(crate::proofs::HeaderLemmas::c_headers))]
fn is_header(header: &WtStreamHeader) -> bool
    ensures header { IsTrue result → (h : Header) × IsHeaderIn header.now h }
    ensures none { (¬ (IsTrue result)) → (h : Header) → ¬ (IsHeaderIn header.now h) }
{
    let Ok(number) = VarInt::try_from_u64(header.kind) else {
        return false;
    };
    let Some(kind) = StreamKind::parse(number) else {
        return false;
    };
    if kind == StreamKind::WebTransport {
        session_of(header.session).is_some()
    } else {
        header.session == 0
    }
}

/// Writes the header of a unidirectional stream to the start of `out`.
///
/// Returns `OK` with the length of the header in `used`. Returns `BUFFER_TOO_SMALL` if `out` is too
/// short; `used` is then the length of the header, and `out` is unchanged. Returns `INVALID` if the
/// type is unknown, if the session ID of the WebTransport type is invalid, or if another type has a
/// session ID other than 0; nothing is then changed.
#[unsafe(no_mangle)]
pub extern "C" fn wt_stream_header_write(
    header: &WtStreamHeader,
    out: &mut [u8],
    used: &mut usize,
) -> i32
    ensures answers { (result ≡ OK) ⊎ ((result ≡ BUFFER_TOO_SMALL) ⊎ (result ≡ INVALID)) }
    ensures bytes { result ≡ OK → (h : Header) × IsHeaderIn header.now h
        × WritesPrefix (header_wire h) out.old out.new used.new }
    ensures room { result ≡ BUFFER_TOO_SMALL → (h : Header) × IsHeaderIn header.now h
        × TooShort (header_wire h) out.old out.new used.new }
    ensures invalid { result ≡ INVALID → ((h : Header) → ¬ (IsHeaderIn header.now h))
        × (out.new ≡ out.old) × (used.new ≡ used.old) }
{
    if !is_header(header) {
        return INVALID;
    }
    let number = VarInt::from_u64_unchecked(header.kind);
    if header.kind == stream_type_ids::WEBTRANSPORT_STREAM.into_inner() {
        write_pair(
            number,
            VarInt::from_u64_unchecked(header.session),
            out,
            used,
        )
    } else {
        write_number(number, out, used)
    }
}
