//! Reads frames from the bytes of a stream (RFC 9114, section 7.1).
ghost use Rattle.std.specs.Prelude.{◌≡◌, ◌≢◌, ◌⊎◌, ◌≤◌, ◌<◌, ◌↔◌, length, MatchOption};
ghost use Rattle.wtp_core.specs.declared.error.ErrorCode.{ErrorCode};
ghost use Rattle.wtp_core.specs.ErrorCodes.{code_number};
ghost use Rattle.wtp_wire.specs.Front.{Short};
ghost use Rattle.wtp_wire.specs.Held.{front_held};
ghost use Rattle.wtransport_proto.specs.FrameCursor.{held_by};
ghost use Rattle.wtransport_proto.specs.declared.stream.cursor.FrameSpan.{FrameSpan};
ghost use Rattle.wtransport_proto.specs.declared.stream.cursor.CursorStep.{CursorStep};
ghost use Rattle.wt_c.specs.Reader.{IsReader, Stepped, c_frame, cursor_of, stream_role};

use crate::status::{ERROR, INVALID, MORE, OK};
use wtp_core::varint::VarInt;
use wtransport_proto::error::ErrorCode;
use wtransport_proto::stream::{CursorStep, FrameCursor, FrameSpan, StreamRole};

/// A bidirectional stream that the peer opened.
pub const BI_REMOTE: u8 = 0;

/// A bidirectional stream that this end opened.
pub const BI_LOCAL: u8 = 1;

/// The peer's control stream, after its header.
pub const CONTROL: u8 = 2;

/// The stream of a session, after the request or response.
pub const SESSION: u8 = 3;

/// Frame-reader state for one stream. A value whose kind is above `SESSION`, whose `first` is
/// above 1, or whose `skip_remaining` is 2^62 or more is rejected; `wt_reader_new` and
/// `wt_read_frame` never produce one.
#[repr(C)]
#[derive(Clone, Copy)]
pub struct WtReader {
    /// The kind of the stream: `BI_REMOTE`, `BI_LOCAL`, `CONTROL` or `SESSION`.
    pub kind: u8,
    /// Whether no frame has been read yet: 1 or 0.
    pub first: u8,
    /// The number of payload bytes left to skip of an unknown frame, below 2^62.
    pub skip_remaining: u64,
}

/// A frame whose payload is in the bytes that were read.
#[repr(C)]
#[derive(Clone, Copy)]
pub struct WtFrame {
    /// The frame type.
    pub kind: u64,
    /// The session ID of a WebTransport frame; 0 for other frames.
    pub session: u64,
    /// The offset of the payload.
    pub offset: usize,
    /// The length of the payload in bytes.
    pub len: usize,
}

/// Returns the role of a kind of stream, or `None` if it is above `SESSION`.
fn role_of(kind: u8) -> Option<StreamRole>
    ensures { MatchOption result (SESSION < kind)
        (λ role. (kind ≤ SESSION) × (role ≡ stream_role kind)) }
{
    match kind {
        BI_REMOTE => Some(StreamRole::BiRemote),
        BI_LOCAL => Some(StreamRole::BiLocal),
        CONTROL => Some(StreamRole::UniRemote),
        SESSION => Some(StreamRole::Session),
        _ => None,
    }
}

/// Returns the cursor that a reader represents, or `None` if the reader is invalid.
fn cursor_of(reader: &WtReader) -> Option<FrameCursor>
    ensures { MatchOption result (¬ (IsReader reader.now))
        (λ cursor. IsReader reader.now × (cursor ≡ cursor_of reader.now)) }
{
    let Some(role) = role_of(reader.kind) else {
        return None;
    };
    if reader.first > 1 || reader.skip_remaining > VarInt::MAX.into_inner() {
        return None;
    }
    Some(FrameCursor {
        role,
        first: reader.first != 0,
        skip_remaining: reader.skip_remaining,
    })
}

/// Initializes the reader of a new stream.
///
/// Returns `OK`, or `INVALID` if the kind is above `SESSION`; `reader` is then unchanged.
#[unsafe(no_mangle)]
pub extern "C" fn wt_reader_new(kind: u8, reader: &mut WtReader) -> i32
    ensures answers { (result ≡ OK) ⊎ (result ≡ INVALID) }
    ensures reader { result ≡ OK → (kind ≤ SESSION)
        × (reader.new ≡ record { kind = kind; first = 1; skip_remaining = 0 }) }
    ensures invalid { result ≡ INVALID → (SESSION < kind) × (reader.new ≡ reader.old) }
{
    if kind > SESSION {
        return INVALID;
    }
    *reader = WtReader {
        kind,
        first: 1,
        skip_remaining: 0,
    };
    OK
}

/// Reads the next frame of a stream. `bytes` is the bytes of the stream after those that were
/// already consumed. Unknown frames are skipped, piece by piece if necessary (RFC 9114, section
/// 9).
///
/// - `OK`: a frame was read, and the stream permits it. `consumed` is the offset after its
///   payload.
/// - `MORE`: there is no complete frame. The bytes after the first `consumed` must be passed
///   again, followed by more; they are at most 4111.
/// - `ERROR`: the stream has an error. `code` is its error code, `reader` is unchanged, and
///   `consumed` is 0.
/// - `INVALID`: `reader` is invalid: its kind is above `SESSION`, `first` is above 1, or
///   `skip_remaining` is 2^62 or more. Nothing is changed.
///
/// The frames and the first error do not depend on how the bytes of the stream are split. Only
/// `OK` changes `frame`, and only `ERROR` changes `code`.
#[unsafe(no_mangle)]
pub extern "C" fn wt_read_frame(
    reader: &mut WtReader,
    bytes: &[u8],
    consumed: &mut usize,
    frame: &mut WtFrame,
    code: &mut u64,
) -> i32
    ensures answers { (result ≡ OK) ⊎ ((result ≡ MORE) ⊎ ((result ≡ ERROR) ⊎ (result ≡ INVALID))) }
    ensures frame { result ≡ OK → (p : FrameSpan) × (frame.new ≡ c_frame p)
        × (consumed.new ≡ p.end)
        × Stepped (CursorStep.Frame p) reader.old bytes.now reader.new }
    ensures more { result ≡ MORE
        → Stepped (CursorStep.More consumed.new) reader.old bytes.now reader.new }
    ensures fault { result ≡ ERROR → (e : ErrorCode) × (code.new ≡ code_number e)
        × Stepped (CursorStep.Fault e) reader.old bytes.now reader.new
        × (reader.new ≡ reader.old) × (consumed.new ≡ 0) }
    ensures invalid { result ≡ INVALID → (¬ (IsReader reader.old))
        × (reader.new ≡ reader.old) × (consumed.new ≡ consumed.old) }
    ensures valid { result ≢ INVALID → IsReader reader.old }
    ensures within { result ≢ INVALID → consumed.new ≤ length bytes.now }
    ensures reader { IsReader reader.old → IsReader reader.new }
    ensures none { result ≢ OK → frame.new ≡ frame.old }
    ensures code { result ≢ ERROR → code.new ≡ code.old }
{
    let Some(mut cursor) = cursor_of(reader) else {
        return INVALID;
    };
    let step = cursor.next(bytes);
    match step {
        CursorStep::Frame(place) => {
            reader.first = 0;
            reader.skip_remaining = 0;
            *consumed = place.end;
            *frame = frame_at(&place);
            OK
        }
        CursorStep::More(passed) => {
            reader.skip_remaining = cursor.skip_remaining;
            *consumed = passed;
            MORE
        }
        CursorStep::Fault(fault) => {
            *consumed = 0;
            *code = fault.to_code().into_inner();
            ERROR
        }
    }
}

/// Returns the C form of a frame's offsets.
fn frame_at(place: &FrameSpan) -> WtFrame
    ensures { result ≡ c_frame place.now }
{
    WtFrame {
        kind: place.kind.id().into_inner(),
        session: match place.session_id {
            Some(session) => session.into_u64(),
            None => 0,
        },
        offset: place.start,
        len: place.end - place.start,
    }
}

/// Checks that the stream may end here. `rest` is the bytes that were not consumed, after `MORE`.
///
/// Returns `OK` if the stream may end here. Returns `ERROR` with the code `H3_FRAME_ERROR`
/// (0x106) if the stream ends inside a frame (RFC 9114, section 7.1). Returns `INVALID` if
/// `reader` is invalid, as for `wt_read_frame`. Only `ERROR` changes `code`.
#[unsafe(no_mangle)]
pub extern "C" fn wt_read_end(reader: &WtReader, rest: &[u8], code: &mut u64) -> i32
    ensures answers { (result ≡ OK) ⊎ ((result ≡ ERROR) ⊎ (result ≡ INVALID)) }
    ensures clean { result ≡ OK → IsReader reader.now × (reader.now.skip_remaining ≡ 0)
        × (length rest.now ≡ 0) }
    ensures fault { result ≡ ERROR → IsReader reader.now × (code.new ≡ 0x106)
        × ¬ ((reader.now.skip_remaining ≡ 0) × (length rest.now ≡ 0)) }
    ensures invalid { result ≡ INVALID → ¬ (IsReader reader.now) }
    ensures code { result ≢ ERROR → code.new ≡ code.old }
{
    let Some(cursor) = cursor_of(reader) else {
        return INVALID;
    };
    match cursor.finish(rest) {
        Ok(()) => OK,
        Err(fault) => {
            *code = fault.to_code().into_inner();
            ERROR
        }
    }
}

// The numbers in c/include/wtransport.h.
const _: () = prove!(BI_REMOTE == 0);

const _: () = prove!(BI_LOCAL == 1);

const _: () = prove!(CONTROL == 2);

const _: () = prove!(SESSION == 3);
