//! Complete frames in buffered bytes.
ghost use Rattle.std.specs.Prelude.{◌≡◌, ◌+◌, ◌≤◌, List, ℕ, length, drop, IsSome, IfSome};
ghost use Rattle.wtp_wire.specs.Content.{Content, payload_in};
ghost use Rattle.wtp_wire.specs.Front.{Framed, front};

use crate::frame::body::Body;
use crate::frame::head::{Announcement, first_head};
use crate::frame::kind::FrameType;
use crate::frame::{Frame, FrameOwned};
use std::alloc::Global;

/// Returns the first frame of the input, with a copy of its payload, and the length of the frame in
/// bytes.
///
/// Returns `None` if the input does not start with a complete valid frame, or if allocation failed.
/// A payload of at most 40 bytes is copied without allocation if at least 40 bytes follow the head.
#[inline(always)]
pub(crate) fn parse_buffered(alloc: Global, bytes: &[u8]) -> Option<(FrameOwned, usize)>
    ensures size { IfSome result (λ x. x.1 ≤ length bytes.now) }
    ensures front { IfSome result (λ x. front bytes.now ≡ Framed x.0 (drop x.1 bytes.now)) }
    ensures short { (f : Content) (rest : List ℕ) → front bytes.now ≡ Framed f rest
        → length (payload_in f) ≤ 40 → 40 ≤ length (payload_in f) + length rest → IsSome result }
{
    let Some(head) = first_head(bytes) else {
        return None;
    };
    let announcement = head.announcement;
    match announcement {
        Announcement::Payload(kind, size) => {
            let body = Body::copy(alloc, head.after, size as usize)?;
            let kind = FrameType::with_number(head.id, kind);
            let rest = head.after.len() - size as usize;
            Some((Frame { kind, body }, bytes.len() - rest))
        }
        Announcement::Session(session_id) => {
            let frame = Frame::new_webtransport(session_id);
            Some((frame, bytes.len() - head.after.len()))
        }
        _ => None,
    }
}
