//! Which frames a stream allows, depending on its role: the rules of RFC 9114, sections 6.2.1 and
//! 7.2, that this library checks (docs/DIFFERENCES.md lists the others).
ghost use Rattle.std.specs.Prelude.{◌≡◌};
ghost use Rattle.wtp_wire.specs.Role.{role_of};
ghost use Rattle.wtp_wire.specs.Rule.{rule};

use crate::frame::FrameKind;
use wtp_core::error::ErrorCode;

/// The role of a stream whose frames are read.
#[derive(Clone, Copy, Debug, PartialEq, Eq)]
pub enum StreamRole {
    /// A bidirectional stream that the peer opened: a request, or a stream of a session if its
    /// first frame is a WebTransport frame.
    BiRemote,
    /// A bidirectional stream that this endpoint opened.
    BiLocal,
    /// The control stream that the peer opened, after its header.
    UniRemote,
    /// The stream of a session's request.
    Session,
}

/// Returns the error code for a frame of this kind on a stream, or `None` if the stream allows it.
///
/// `first` is whether the frame is the first one on the stream, not counting unknown frames. It
/// matters only on a `BiRemote` stream: a WebTransport frame that is not the first one there is a
/// `Frame` error. Every other error is `FrameUnexpected`.
///
/// These are the rules of RFC 9114, sections 6.2.1, 7.2 and table 1, that this library checks
/// (docs/DIFFERENCES.md lists the others), and of draft-ietf-webtrans-http3-02, section 4.2.
#[inline(always)]
#[tactic(auto, using(crate::proofs::RuleLemmas::rules_of_kinds))]
pub fn fault_of(role: StreamRole, first: bool, kind: FrameKind) -> Option<ErrorCode>
    ensures { result ≡ rule (role_of role) first kind }
{
    match kind {
        FrameKind::Exercise(_) => None,
        FrameKind::Data | FrameKind::Headers => match role {
            StreamRole::UniRemote => Some(ErrorCode::FrameUnexpected),
            StreamRole::BiRemote | StreamRole::BiLocal | StreamRole::Session => None,
        },
        FrameKind::Settings => match role {
            StreamRole::UniRemote => None,
            StreamRole::BiRemote | StreamRole::BiLocal | StreamRole::Session => {
                Some(ErrorCode::FrameUnexpected)
            }
        },
        FrameKind::WebTransport => match role {
            StreamRole::BiRemote if first => None,
            StreamRole::BiRemote => Some(ErrorCode::Frame),
            StreamRole::BiLocal | StreamRole::UniRemote | StreamRole::Session => {
                Some(ErrorCode::FrameUnexpected)
            }
        },
    }
}
