//! What the frames so far say of those that may follow.

use crate::message::judge::Judge;
use wtp_core::varint::VarInt;
use wtp_wire::stream_header::StreamKind;

/// What was read of a stream, as far as warnings depend on it.
#[derive(Clone, Copy)]
pub(crate) struct Past {
    /// Whether a frame of a control stream was read.
    pub(crate) saw_control_frame: bool,
    /// Whether SETTINGS was read.
    pub(crate) saw_settings: bool,
    /// The ID of the last GOAWAY.
    pub(crate) goaway: Option<VarInt>,
    /// The ID of the last MAX_PUSH_ID.
    pub(crate) max_push: Option<VarInt>,
    /// Whether the request of the stream is a CONNECT, or its response accepts a session. No frames
    /// of known types but DATA follow (RFC 9114, section 4.4).
    pub(crate) is_tunnel: bool,
    /// Whether a trailer section was read.
    pub(crate) saw_trailers: bool,
    /// Whether DATA frames may contain capsules though no field says so.
    pub(crate) may_have_capsules: bool,
    /// Whether a capsule closed the session.
    pub(crate) is_closed: bool,
    /// The type of a unidirectional stream, if it is one that the library reads.
    pub(crate) stream: Option<StreamKind>,
    /// The message, once a frame of its stream was read.
    pub(crate) judge: Option<Judge>,
}

impl Past {
    /// Creates the state before the first frame.
    pub(crate) fn new() -> Self {
        Past {
            saw_control_frame: false,
            saw_settings: false,
            goaway: None,
            max_push: None,
            is_tunnel: false,
            saw_trailers: false,
            may_have_capsules: false,
            is_closed: false,
            stream: None,
            judge: None,
        }
    }
}
