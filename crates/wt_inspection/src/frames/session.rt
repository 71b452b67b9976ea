//! The head of a bidirectional WebTransport stream (draft-ietf-webtrans-http3-02, section 4.2).
ghost use Rattle.std.specs.Prelude.{◌≡◌, ◌≤◌, ◌<◌, true, Some, length, drop};
ghost use Rattle.wtp_wire.specs.Kind.{kind_of};
ghost use Rattle.wtp_wire.specs.Settings.{pair_at};
ghost use Rattle.wt_inspection.specs.Recording.{HasNoFrame, IsNext, is_session, session_fault};
ghost use Rattle.wt_inspection.specs.Resolved.{HasNoSection};

use crate::reading::{Next, Step, fault};
use wt_inspection_model::item::Content;
use wtp_core::error::ErrorCode;
use wtp_core::ids::SessionId;
use wtp_wire::frame::FrameKind;
use wtp_wire::head::FirstPair;
use wtp_wire::rules::{StreamRole, fault_of};

/// Returns the head of a WebTransport stream, or nothing that is read where none may begin.
#[tactic(auto, using(crate::proofs::RecordingLemmas::no_frame_refused, crate::proofs::RecordingLemmas::session_kind))]
pub(super) fn session_item(
    role: StreamRole,
    first: bool,
    at: usize,
    pair: FirstPair,
    rest: &[u8],
) -> Step
    requires nonempty { 0 < length rest.now }
    requires within { pair.size ≤ length rest.now }
    requires some { 0 < pair.size }
    requires pair { pair_at rest.now ≡ Some ((pair.first, pair.second), drop pair.size rest.now) }
    requires kind { is_session (kind_of pair.first) ≡ true }
    ensures within { result.length ≤ length rest.now }
    ensures some { 0 < result.length }
    ensures read { IsNext (Next.Frames role first) at rest.now result.length result.content
        result.after }
    ensures plain { HasNoFrame result.content }
    ensures sections { HasNoSection result.content }
{
    let Ok(session) = SessionId::try_from_varint(pair.second) else {
        let why = "a session ID is a multiple of 4 (draft-ietf-webtrans-http3-02, section 4)";
        return Step::last(rest.len(), Content::Unread, fault(at, ErrorCode::Id, why));
    };
    if let Some(code) = session_fault(role, first, at) {
        let why = "only the first bytes of a bidirectional stream may begin a WebTransport stream \
                   (draft-ietf-webtrans-http3-02, section 4.2)";
        return Step::last(rest.len(), Content::Unread, fault(at, code, why));
    }
    Step::go_on(
        pair.size,
        Content::Session(session.into_u64()),
        Next::Payload,
    )
}

/// Returns the fault of a WebTransport stream that begins at this place, if it may not.
fn session_fault(role: StreamRole, first: bool, at: usize) -> Option<ErrorCode>
    ensures { result ≡ session_fault role first at }
{
    fault_of(role, first && at == 0, FrameKind::WebTransport)
}
