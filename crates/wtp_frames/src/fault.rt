//! Errors of streams, with their codes and their scope (RFC 9114, section 8).
ghost use Rattle.std.specs.Prelude.{◌≡◌};
ghost use Rattle.wtp_frames.specs.Fault.{code_of, scope_of};

use wtp_core::error::{Code, ErrorScope};

/// An error of a stream, by the rule that the peer violated.
#[derive(Clone, Copy, Debug, PartialEq, Eq)]
pub enum Fault {
    /// The control stream ended (RFC 9114, section 6.2.1).
    ClosedCriticalStream,
    /// The frame may not come here (RFC 9114, section 7.2).
    FrameUnexpected,
    /// The frame has an invalid layout or size, or ends early (RFC 9114, section 7.1).
    Frame,
    /// SETTINGS are too long, or too many frames without content follow one another (RFC 9114,
    /// section 10.5).
    ExcessiveLoad,
    /// More than 64 interim responses came before the final one (RFC 9114, sections 4.1 and 10.5).
    TooManyInterim,
    /// An ID is invalid here (RFC 9114, sections 5.2, 7.2.3, 7.2.5 and 7.2.7).
    Id,
    /// The first frame of the control stream is not SETTINGS (RFC 9114, section 6.2.1).
    MissingSettings,
    /// The stream ended before the HEADERS of a request (RFC 9114, section 4.1).
    RequestIncomplete,
    /// The stream ended before the HEADERS of a response (RFC 9114, sections 4.1 and 4.1.2).
    Message,
    /// The peer may not open this stream (RFC 9114, sections 6.1, 6.2.1 and 6.2.2).
    StreamCreation,
    /// The stream's session is not to come, or too many streams wait for theirs (WebTransport over
    /// HTTP/3, "Buffering Incoming Streams and Datagrams").
    BufferedStreamRejected,
    /// The stream's session is over (WebTransport over HTTP/3, "Session Termination").
    SessionGone,
}

impl Fault {
    /// Returns the error code.
    pub fn code(self) -> Code
        ensures { result ≡ code_of self }
    {
        match self {
            Fault::ClosedCriticalStream => Code::H3_CLOSED_CRITICAL_STREAM,
            Fault::FrameUnexpected => Code::H3_FRAME_UNEXPECTED,
            Fault::Frame => Code::H3_FRAME_ERROR,
            Fault::ExcessiveLoad | Fault::TooManyInterim => Code::H3_EXCESSIVE_LOAD,
            Fault::Id => Code::H3_ID_ERROR,
            Fault::MissingSettings => Code::H3_MISSING_SETTINGS,
            Fault::RequestIncomplete => Code::H3_REQUEST_INCOMPLETE,
            Fault::Message => Code::H3_MESSAGE_ERROR,
            Fault::StreamCreation => Code::H3_STREAM_CREATION_ERROR,
            Fault::BufferedStreamRejected => Code::WEBTRANSPORT_BUFFERED_STREAM_REJECTED,
            Fault::SessionGone => Code::WEBTRANSPORT_SESSION_GONE,
        }
    }

    /// Returns what the error ends: the connection, or the stream alone.
    pub fn scope(self) -> ErrorScope
        ensures { result ≡ scope_of self }
    {
        match self {
            Fault::RequestIncomplete
            | Fault::Message
            | Fault::TooManyInterim
            | Fault::BufferedStreamRejected
            | Fault::SessionGone => ErrorScope::Stream,
            _ => ErrorScope::Connection,
        }
    }
}
