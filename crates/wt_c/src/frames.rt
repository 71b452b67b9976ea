//! Writes frames (RFC 9114, section 7).
ghost use Rattle.std.specs.Prelude.{◌≡◌, ◌≢◌, ◌⊎◌, ◌≤◌, ◌<◌, ◌^◌, ◌++◌, List, ℕ, length};
ghost use Rattle.std.specs.Prelude.{MatchOption};
ghost use Rattle.wt_c.specs.Numbers.{IsSessionNumber};
ghost use Rattle.wtp_wire.specs.declared.frame.kind.FrameKind.{FrameKind};
ghost use Rattle.wtp_wire.specs.Content.{PlainOf, WebTransportOf};
ghost use Rattle.wtp_wire.specs.Kind.{IsKnown};
ghost use Rattle.wtp_wire.specs.Wire.{wire};
ghost use Rattle.wt_c.specs.Frames.{IsPayloadKind, frame_head};
ghost use Rattle.wt_c.specs.Output.{WritesPrefix, TooShort};

use crate::numbers::session_of;
use crate::output::write_pair;
use crate::status::{BUFFER_TOO_SMALL, INVALID, OK};
use std::borrow::CowSlice;
use wtp_core::bytes::BufferWriter;
use wtp_core::varint::VarInt;
use wtp_wire::frame::{Frame, FrameKind};

/// Returns the frame kind of a frame type, or `None` if its frames have no payload or the type is
/// unknown.
#[tactic(auto, using(crate::proofs::FrameLemmas::payload_kinds))]
fn payload_kind(kind: u64) -> Option<FrameKind>
    ensures { MatchOption result ((k : FrameKind) → ¬ (IsPayloadKind k kind))
        (λ k. IsPayloadKind k kind) }
{
    let Ok(number) = VarInt::try_from_u64(kind) else {
        return None;
    };
    let Some(known) = FrameKind::parse(number) else {
        return None;
    };
    if known == FrameKind::WebTransport {
        return None;
    }
    Some(known)
}

/// Returns a frame with this kind and payload, or `None` if the payload is too long.
fn frame_of(kind: FrameKind, payload: &[u8]) -> Option<Frame<'_>>
    requires known { IsKnown kind }
    requires plain { kind ≢ FrameKind.WebTransport }
    ensures { MatchOption result (2 ^ 62 ≤ length payload.now)
        (λ f. (length payload.now < 2 ^ 62) × (f ≡ PlainOf kind payload.now)) }
{
    if payload.len() as u64 > VarInt::MAX.into_inner() {
        return None;
    }
    let body = CowSlice::Borrowed(payload);
    Some(match kind {
        FrameKind::Data => Frame::new_data(body),
        FrameKind::Headers => Frame::new_headers(body),
        FrameKind::Settings => Frame::new_settings(body),
        FrameKind::WebTransport => unreachable!(),
        FrameKind::Exercise(id) => Frame::new_exercise(id, body),
    })
}

/// Writes a frame to the start of `out`. The results are those of `write_bytes`.
pub(crate) fn write_frame(frame: &Frame<'_>, out: &mut [u8], used: &mut usize) -> i32
    ensures answers { (result ≡ OK) ⊎ (result ≡ BUFFER_TOO_SMALL) }
    ensures bytes { result ≡ OK → WritesPrefix (wire frame.now) out.old out.new used.new }
    ensures room { result ≡ BUFFER_TOO_SMALL → TooShort (wire frame.now) out.old out.new used.new }
{
    *used = frame.write_size();
    let mut writer = BufferWriter::new(out);
    match frame.write_to_buffer(&mut writer) {
        Ok(()) => OK,
        Err(_) => BUFFER_TOO_SMALL,
    }
}

/// Writes a frame with a payload to the start of `out`. Its type is DATA (0x00), HEADERS (0x01),
/// SETTINGS (0x04), or a reserved type (RFC 9114, section 7.2.8).
///
/// Returns `OK` with the size of the frame in `used`. Returns `BUFFER_TOO_SMALL` if `out` is too
/// short; `used` is then the size of the frame, and `out` is unchanged. Returns `INVALID` if the
/// type is any other, or if the payload is 2^62 bytes or longer; nothing is then changed.
#[unsafe(no_mangle)]
pub extern "C" fn wt_frame_write(kind: u64, payload: &[u8], out: &mut [u8], used: &mut usize) -> i32
    ensures answers { (result ≡ OK) ⊎ ((result ≡ BUFFER_TOO_SMALL) ⊎ (result ≡ INVALID)) }
    ensures bytes { result ≡ OK → (k : FrameKind) × IsPayloadKind k kind
        × (length payload.now < 2 ^ 62)
        × WritesPrefix (wire (PlainOf k payload.now)) out.old out.new used.new }
    ensures room { result ≡ BUFFER_TOO_SMALL → (k : FrameKind) × IsPayloadKind k kind
        × (length payload.now < 2 ^ 62)
        × TooShort (wire (PlainOf k payload.now)) out.old out.new used.new }
    ensures invalid { result ≡ INVALID
        → (((k : FrameKind) → ¬ (IsPayloadKind k kind)) ⊎ (2 ^ 62 ≤ length payload.now))
        × (out.new ≡ out.old) × (used.new ≡ used.old) }
{
    let Some(known) = payload_kind(kind) else {
        return INVALID;
    };
    match frame_of(known, payload) {
        Some(frame) => write_frame(&frame, out, used),
        None => INVALID,
    }
}

/// Writes the header of a frame to the start of `out`: its type and the length of its payload.
/// The payload that follows it need not be copied.
///
/// Returns the same results as `wt_frame_write`, for the header only. Also returns `INVALID` if
/// `size` is 2^62 or more.
#[unsafe(no_mangle)]
pub extern "C" fn wt_frame_write_head(kind: u64, size: u64, out: &mut [u8], used: &mut usize) -> i32
    ensures answers { (result ≡ OK) ⊎ ((result ≡ BUFFER_TOO_SMALL) ⊎ (result ≡ INVALID)) }
    ensures bytes { result ≡ OK → (k : FrameKind) × IsPayloadKind k kind
        × (size < 2 ^ 62) × WritesPrefix (frame_head k size) out.old out.new used.new }
    ensures room { result ≡ BUFFER_TOO_SMALL → (k : FrameKind) × IsPayloadKind k kind
        × (size < 2 ^ 62) × TooShort (frame_head k size) out.old out.new used.new }
    ensures invalid { result ≡ INVALID
        → (((k : FrameKind) → ¬ (IsPayloadKind k kind)) ⊎ (2 ^ 62 ≤ size))
        × (out.new ≡ out.old) × (used.new ≡ used.old) }
{
    let Some(known) = payload_kind(kind) else {
        return INVALID;
    };
    match VarInt::try_from_u64(size) {
        Ok(size) => write_pair(known.id(), size, out, used),
        Err(_) => INVALID,
    }
}

/// A frame is the header that `wt_frame_write_head` writes, followed by its payload.
#[tactic(auto, using(crate::proofs::FrameLemmas::head_and_payload))]
pub fn frame_is_head_and_payload()
    ensures { (k : FrameKind) (payload : List ℕ)
        → wire (PlainOf k payload) ≡ frame_head k (length payload) ++ payload }
{}

/// Writes the frame that associates its stream with a session to the start of `out`
/// (draft-ietf-webtrans-http3-02, section 4.2). All bytes after it are application data.
///
/// Returns `OK` with the size of the frame in `used`. Returns `BUFFER_TOO_SMALL` if `out` is too
/// short; `used` is then the size of the frame, and `out` is unchanged. Returns `INVALID` if
/// `session` is not a session ID; nothing is then changed.
#[unsafe(no_mangle)]
pub extern "C" fn wt_session_frame_write(session: u64, out: &mut [u8], used: &mut usize) -> i32
    ensures answers { (result ≡ OK) ⊎ ((result ≡ BUFFER_TOO_SMALL) ⊎ (result ≡ INVALID)) }
    ensures bytes { result ≡ OK → IsSessionNumber session
        × WritesPrefix (wire (WebTransportOf session)) out.old out.new used.new }
    ensures room { result ≡ BUFFER_TOO_SMALL → IsSessionNumber session
        × TooShort (wire (WebTransportOf session)) out.old out.new used.new }
    ensures invalid { result ≡ INVALID → (¬ (IsSessionNumber session))
        × (out.new ≡ out.old) × (used.new ≡ used.old) }
{
    match session_of(session) {
        Some(id) => write_frame(&Frame::new_webtransport(id), out, used),
        None => INVALID,
    }
}
