//! Reads capsules from the data of a session's stream (RFC 9297, section 3.2).
ghost use Rattle.std.specs.Prelude.{◌≡◌, ◌≢◌, ◌⊎◌, ◌≤◌, length};
ghost use Rattle.wtp_wire.specs.declared.capsule.cursor.CapsuleSpan.{CapsuleSpan};
ghost use Rattle.wtp_wire.specs.declared.capsule.cursor.CapsuleStep.{CapsuleStep};
ghost use Rattle.wt_c.specs.CapsuleReader.{Stepped, c_capsule, cursor_of, IsEnd};

use crate::status::{ERROR, MORE, OK};
use wtp_core::error::ErrorCode;
use wtp_wire::capsule::{CapsuleCursor, CapsuleSpan, CapsuleStep};

/// Capsule-reader state for one stream. Every value is valid.
#[repr(C)]
#[derive(Clone, Copy)]
pub struct WtCapsuleReader {
    /// The number of bytes left to skip of an unknown capsule's value.
    pub skip_remaining: u64,
}

/// A capsule whose value is in the bytes that were read.
#[repr(C)]
#[derive(Clone, Copy)]
pub struct WtCapsule {
    /// The type.
    pub kind: u64,
    /// The offset of the value.
    pub offset: usize,
    /// The length of the value in bytes.
    pub len: usize,
}

/// Returns the cursor that a reader represents.
fn cursor_of(reader: &WtCapsuleReader) -> CapsuleCursor
    ensures { result ≡ cursor_of reader.now }
{
    CapsuleCursor {
        skip_remaining: reader.skip_remaining,
    }
}

/// Returns the C form of a capsule's offsets.
fn capsule_at(place: &CapsuleSpan) -> WtCapsule
    ensures { result ≡ c_capsule place.now }
{
    WtCapsule {
        kind: place.kind.id().into_inner(),
        offset: place.start,
        len: place.end - place.start,
    }
}

/// Reads the next capsule of a known type from the data of a session's stream, which is the
/// payloads of its DATA frames. `bytes` is the data after the bytes that were already consumed.
/// Capsules of unknown types are skipped, piece by piece if necessary (RFC 9297, section 3.2).
///
/// - `OK`: a capsule was read. `consumed` is the offset after its value.
/// - `MORE`: there is no complete capsule. The bytes after the first `consumed` must be passed
///   again, followed by more; they are at most 1043.
/// - `ERROR`: the value of the next capsule is longer than 1028 bytes. `code` is
///   `H3_DATAGRAM_ERROR` (0x33), `reader` is unchanged, and `consumed` is 0.
///
/// The capsules and the error do not depend on how the data is split. Only `OK` changes
/// `capsule`, and only `ERROR` changes `code`.
#[unsafe(no_mangle)]
pub extern "C" fn wt_capsule_read(
    reader: &mut WtCapsuleReader,
    bytes: &[u8],
    consumed: &mut usize,
    capsule: &mut WtCapsule,
    code: &mut u64,
) -> i32
    ensures answers { (result ≡ OK) ⊎ ((result ≡ MORE) ⊎ (result ≡ ERROR)) }
    ensures capsule { result ≡ OK → (p : CapsuleSpan) × (capsule.new ≡ c_capsule p)
        × (consumed.new ≡ p.end)
        × Stepped (CapsuleStep.Capsule p) reader.old bytes.now reader.new }
    ensures more { result ≡ MORE
        → Stepped (CapsuleStep.More consumed.new) reader.old bytes.now reader.new }
    ensures fault { result ≡ ERROR → Stepped CapsuleStep.TooLong reader.old bytes.now reader.new
        × (code.new ≡ 0x33) × (reader.new ≡ reader.old) × (consumed.new ≡ 0) }
    ensures within { consumed.new ≤ length bytes.now }
    ensures none { result ≢ OK → capsule.new ≡ capsule.old }
    ensures code { result ≢ ERROR → code.new ≡ code.old }
{
    let mut cursor = cursor_of(reader);
    let step = cursor.next(bytes);
    match step {
        CapsuleStep::Capsule(place) => {
            reader.skip_remaining = cursor.skip_remaining;
            *consumed = place.end;
            *capsule = capsule_at(&place);
            OK
        }
        CapsuleStep::More(passed) => {
            reader.skip_remaining = cursor.skip_remaining;
            *consumed = passed;
            MORE
        }
        CapsuleStep::TooLong => {
            *consumed = 0;
            *code = ErrorCode::Datagram.to_code().into_inner();
            ERROR
        }
    }
}

/// Checks that the stream may end here. `rest` is the bytes that were not consumed, after `MORE`.
///
/// Returns `OK` if the stream may end here. Returns `ERROR` with the code `H3_MESSAGE_ERROR`
/// (0x10e) if the stream ends inside a capsule (RFC 9297, section 3.3). Only `ERROR` changes
/// `code`.
#[unsafe(no_mangle)]
pub extern "C" fn wt_capsule_end(reader: &WtCapsuleReader, rest: &[u8], code: &mut u64) -> i32
    ensures answers { (result ≡ OK) ⊎ (result ≡ ERROR) }
    ensures clean { result ≡ OK → IsEnd reader.now rest.now }
    ensures fault { result ≡ ERROR → (¬ (IsEnd reader.now rest.now)) × (code.new ≡ 0x10e) }
    ensures code { result ≢ ERROR → code.new ≡ code.old }
{
    match cursor_of(reader).finish(rest) {
        Ok(()) => OK,
        Err(fault) => {
            *code = ErrorCode::from(fault).to_code().into_inner();
            ERROR
        }
    }
}
