//! The kinds and states of streams, as type parameters.

use wtp_core::ids::SessionId;
use wtp_fields::session::SessionRequest;

/// Both endpoints send.
#[derive(Debug, Drop)]
pub struct Bi;

/// One endpoint sends.
#[derive(Debug, Drop)]
pub struct Uni;

/// The peer opened the stream.
#[derive(Debug, Drop)]
pub struct Remote;

/// This endpoint opened the stream.
#[derive(Debug, Drop)]
pub struct Local;

/// A bidirectional stream that the peer opened.
#[derive(Debug, Drop)]
pub struct BiRemote(Bi, Remote);

impl Default for BiRemote {
    fn default() -> Self {
        BiRemote(Bi, Remote)
    }
}

/// A bidirectional stream that this endpoint opened.
#[derive(Debug, Drop)]
pub struct BiLocal(Bi, Local);

impl Default for BiLocal {
    fn default() -> Self {
        BiLocal(Bi, Local)
    }
}

/// A unidirectional stream that the peer opened.
#[derive(Debug, Drop)]
pub struct UniRemote(Uni, Remote);

impl Default for UniRemote {
    fn default() -> Self {
        UniRemote(Uni, Remote)
    }
}

/// A unidirectional stream that this endpoint opened.
#[derive(Debug, Drop)]
pub struct UniLocal(Uni, Local);

impl Default for UniLocal {
    fn default() -> Self {
        UniLocal(Uni, Local)
    }
}

/// A stream of QUIC. What opens it has not been read or written completely.
#[derive(Debug, Drop)]
pub struct Quic;

/// A stream of HTTP/3. `H` is `StreamHeader` for a unidirectional stream, which starts with a
/// header (RFC 9114, section 6.2), and `()` for a bidirectional one.
#[derive(Debug, Drop)]
pub struct H3<H = ()> {
    pub(crate) header: H,
    pub(crate) first_frame_done: bool,
}

/// A stream of a WebTransport session.
#[derive(Debug, Drop)]
pub struct WT {
    pub(crate) session_id: SessionId,
}

/// The stream of a session: a stream of HTTP/3 with the request, the response and the frames after
/// them.
#[derive(Debug, Drop)]
pub struct Session {
    pub(crate) session_request: SessionRequest,
}
