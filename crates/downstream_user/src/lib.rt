//! A user's crate, which depends on `wtransport_proto` only: its contracts cite the definitions
//! that the library re-exports, and its proofs use the library's laws. There is no product code
//! here. `loops` has samples of loops, of which it is proved that they keep the condition of each
//! call.
#![tactic(auto)]

ghost use Rattle.std.specs.Prelude.{◌≡◌, ◌≢◌, ◌↔◌, ◌++◌, Option, Some, None, Ok, List, ℕ};
ghost use Rattle.std.specs.Prelude.{IsTrue, IfSome, IfOk, IfErr, [], option_map, ◌≤◌};
ghost use Rattle.wtransport_proto.specs.Capsule.{capsule_in};
ghost use Rattle.wtransport_proto.specs.CloseSession.{AnswersClose};
ghost use Rattle.wtransport_proto.specs.Content.{Content, content, kind_in, payload_in};
ghost use Rattle.wtransport_proto.specs.FieldSection.{map_at};
ghost use Rattle.wtransport_proto.specs.FrameCursor.{run_from};
ghost use Rattle.wtransport_proto.specs.Front.{Begins, Framed, front};
ghost use Rattle.wtransport_proto.specs.Run.{Tail, MayGoOn, H3, ends, follows};
ghost use Rattle.wtransport_proto.specs.SessionResponse.{status_value};
ghost use Rattle.wtransport_proto.specs.Ids.{status_in};
ghost use Rattle.wtransport_proto.specs.Settings.{setting_value};

pub mod loops;

use std::alloc::Global;
use wtransport_proto::bytes::AsyncRead;
use wtransport_proto::capsule::capsules::CloseWebTransportSession;
use wtransport_proto::capsule::{Capsule, CapsuleKind};
use wtransport_proto::error::ErrorCode;
use wtransport_proto::frame::{Frame, FrameKind, FrameReading};
use wtransport_proto::ids::StatusCode;
use wtransport_proto::laws::wire::front_is_unique;
use wtransport_proto::qpack::{Decoder, DecodingError};
use wtransport_proto::session::SessionResponse;
use wtransport_proto::settings::{SettingId, Settings};
use wtransport_proto::stream::biremote::StreamBiRemoteH3;
use wtransport_proto::stream::{BiAccepted, BiAccepting, CursorStep, FrameCursor, StreamRole};
use wtransport_proto::varint::VarInt;

/// Returns whether the peer supports datagrams.
pub fn takes_datagrams(settings: &Settings) -> bool
    ensures { IsTrue result ↔ (setting_value settings.now SettingId.H3Datagram ≡ Some 1) }
{
    settings.get(SettingId::H3Datagram) == Some(VarInt::from_u32(1))
}

/// Returns the first frame of the input, by the wire grammar. Returns `None` if no frame is first.
pub fn first_frame<'a>(bytes: &'a [u8]) -> Option<Frame<'a>>
    ensures some { IfSome result
        (λ frame. (rest : List ℕ) × (front bytes.now ≡ Framed frame rest)
        × Begins bytes.now (Framed frame rest)) }
    ensures none { result ≡ None
        → (frame : Content) (rest : List ℕ) → front bytes.now ≢ Framed frame rest }
{
    front_is_unique();
    let mut rest = bytes;
    match Frame::read(&mut rest) {
        Ok(Some(frame)) => Some(frame),
        _ => None,
    }
}

/// Returns whether a field section has no field.
///
/// # Errors
///
/// Returns the section's first fault, or `Memory` if allocation failed.
pub fn is_empty(alloc: Global, section: &[u8]) -> Result<bool, DecodingError>
    ensures { IfOk result (λ empty. IsTrue empty ↔ (map_at section.now ≡ Ok [])) }
{
    let fields = Decoder::decode(alloc, section)?;
    Ok(fields.is_empty())
}

/// Returns whether a DATA frame starts with a capsule that closes its session with the code 0.
/// Returns `false` as well if allocation failed.
pub fn closes_cleanly(alloc: Global, frame: &Frame<'_>) -> bool
    requires { kind_in frame.now ≡ FrameKind.Data }
    ensures { IsTrue result
        → (kind : CapsuleKind) × (payload reason : List ℕ)
        × (capsule_in (payload_in frame.now) ≡ Some (kind, payload))
        × AnswersClose payload (Ok (0, reason)) }
{
    let Some(capsule) = Capsule::with_frame(frame) else {
        return false;
    };
    match capsule.kind() {
        CapsuleKind::CloseWebTransportSession => {
            match CloseWebTransportSession::with_capsule(alloc, &capsule) {
                Ok(close) => close.error_code() == VarInt::MIN,
                Err(_) => false,
            }
        }
    }
}

/// Returns the status of a response, which has one.
pub fn status(response: &SessionResponse) -> StatusCode
    ensures { option_map status_in (status_value response.now) ≡ Some result }
{
    response.code()
}

/// Takes the next frame from the bytes of a stream that are there, and returns its payload. Returns
/// `None` if there are too few.
///
/// # Errors
///
/// Returns the fault of the stream, whatever follows these bytes.
pub fn next_payload<'a>(
    cursor: &mut FrameCursor,
    bytes: &mut &'a [u8],
) -> Result<Option<&'a [u8]>, ErrorCode>
    ensures some { IfOk result (λ taken. IfSome taken (λ payload. (kind : FrameKind) × (session : Option ℕ)
        × ((more : List ℕ) (tail : Tail) → tail ≢ MayGoOn
        → run_from cursor.old (bytes.old.now ++ more) tail
        ≡ follows (content kind payload.now session) (run_from cursor.new (bytes.new.now ++ more) tail)))) }
    ensures none { result ≡ Ok None → (more : List ℕ) (tail : Tail) → tail ≢ MayGoOn
        → run_from cursor.old (bytes.old.now ++ more) tail ≡ run_from cursor.new (bytes.new.now ++ more) tail }
    ensures fault { IfErr result (λ c. (more : List ℕ) (tail : Tail) → tail ≢ MayGoOn
        → run_from cursor.old (bytes.old.now ++ more) tail ≡ ends (H3 c)) }
{
    match cursor.next(bytes) {
        CursorStep::Frame(place) => {
            let payload = place.payload(bytes);
            *bytes = bytes.split_at(place.end).1;
            Ok(Some(payload))
        }
        CursorStep::More(n) => {
            *bytes = bytes.split_at(n).1;
            Ok(None)
        }
        CursorStep::Fault(code) => Err(code),
    }
}

/// Returns how many frames a stream of this role has, which ends after these bytes.
///
/// # Errors
///
/// Returns the first fault of the stream, `Frame` if it ends inside a frame, or `ExcessiveLoad` if
/// it has more than `most` frames.
pub fn count_frames(role: StreamRole, bytes: &[u8], most: u32) -> Result<u32, ErrorCode>
    ensures { IfOk result (λ count. count ≤ most) }
{
    let mut cursor = FrameCursor::new(role);
    let mut rest = bytes;
    for count in 0..=most {
        match cursor.next(rest) {
            CursorStep::Frame(place) => rest = rest.split_at(place.end).1,
            CursorStep::More(n) => {
                cursor.finish(rest.split_at(n).1)?;
                return Ok(count);
            }
            CursorStep::Fault(code) => return Err(code),
        }
    }
    Err(ErrorCode::ExcessiveLoad)
}

/// Polls on while frames are skipped, at most `polls` times: a poll has no condition, so a loop of
/// polls needs no proof.
pub fn accept_on<S: AsyncRead>(
    mut accepting: BiAccepting,
    source: &mut S,
    polls: u32,
) -> BiAccepted {
    for _turn in 0..polls {
        match accepting.poll(source) {
            BiAccepted::Again(state) => accepting = state,
            found => return found,
        }
    }
    BiAccepted::Again(accepting)
}

/// Begins to accept a stream that the peer opened.
pub fn accept<S: AsyncRead>(
    alloc: Global,
    stream: StreamBiRemoteH3,
    source: &mut S,
    polls: u32,
) -> BiAccepted {
    accept_on(stream.accept_async(FrameReading::new(alloc)), source, polls)
}
