//! The scope of an error code: a stream or the connection.

ghost use Rattle.std.specs.Prelude.{◌≡◌, None, Some};
ghost use Rattle.wtp_core.specs.declared.error.ErrorCode.TheVariants.{Id, Datagram, Message, NoError};
ghost use Rattle.wtp_core.specs.ErrorScope.{scope_of, code_in};

use super::{ErrorCode, Refused, UnknownErrorCode};
use crate::ids::{InvalidQStreamId, InvalidSessionId, InvalidStatusCode};

/// What an error code ends (RFC 9114, section 8).
#[derive(Clone, Copy, Debug, PartialEq, Eq)]
pub enum ErrorScope {
    /// One stream, which is reset or no longer read. The connection stays open.
    Stream,
    /// The connection, which is closed.
    Connection,
    /// The stream or the connection. Either the standards use the code for both, and the violated
    /// rule determines which; or no rule says what the code ends.
    Either,
}

impl ErrorCode {
    /// Returns what the code ends. A stream error may also be treated as a connection error (RFC
    /// 9114, section 8).
    pub fn scope(self) -> ErrorScope
        ensures { result ≡ scope_of self }
    {
        match self {
            ErrorCode::Datagram | ErrorCode::NoError | ErrorCode::StreamCreation => {
                ErrorScope::Either
            }
            ErrorCode::RequestRejected
            | ErrorCode::Message
            | ErrorCode::BufferedStreamRejected
            | ErrorCode::SessionGone => ErrorScope::Stream,
            ErrorCode::ClosedCriticalStream
            | ErrorCode::FrameUnexpected
            | ErrorCode::Frame
            | ErrorCode::ExcessiveLoad
            | ErrorCode::Id
            | ErrorCode::Settings
            | ErrorCode::MissingSettings
            | ErrorCode::Decompression => ErrorScope::Connection,
        }
    }
}

impl Refused {
    /// Returns the error code, or `None` if memory allocation failed.
    pub fn code(&self) -> Option<ErrorCode>
        ensures { result ≡ code_in self.now }
    {
        match self {
            Refused::Code(code) => Some(*code),
            Refused::Memory => None,
        }
    }
}

impl From<InvalidSessionId> for ErrorCode {
    ghost from_gives = { λ _ code. code ≡ Id };

    /// Returns [`ErrorCode::Id`]: an invalid session ID ends the connection (WebTransport over
    /// HTTP/3, "Session IDs").
    fn from(_error: InvalidSessionId) -> ErrorCode {
        ErrorCode::Id
    }
}

impl From<InvalidQStreamId> for ErrorCode {
    ghost from_gives = { λ _ code. code ≡ Datagram };

    /// Returns [`ErrorCode::Datagram`] (RFC 9297, section 2.1).
    fn from(_error: InvalidQStreamId) -> ErrorCode {
        ErrorCode::Datagram
    }
}

impl From<InvalidStatusCode> for ErrorCode {
    ghost from_gives = { λ _ code. code ≡ Message };

    /// Returns [`ErrorCode::Message`]: a response with an invalid `:status` is malformed (RFC 9114,
    /// sections 4.1.2 and 4.3.2).
    fn from(_error: InvalidStatusCode) -> ErrorCode {
        ErrorCode::Message
    }
}

impl From<UnknownErrorCode> for ErrorCode {
    ghost from_gives = { λ _ code. code ≡ NoError };

    /// Returns [`ErrorCode::NoError`]: unknown error codes are treated as this one (RFC 9114,
    /// section 8).
    fn from(_error: UnknownErrorCode) -> ErrorCode {
        ErrorCode::NoError
    }
}
