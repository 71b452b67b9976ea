//! The error codes of parse errors of frames, stream headers and capsules.
ghost use Rattle.std.specs.Prelude.{◌≡◌};
ghost use Rattle.wtp_core.specs.declared.error.ErrorCode.TheVariants.{Message};
ghost use Rattle.wtp_wire.specs.Codes.{frame_code, frame_read_code, header_code, header_read_code, capsule_code};

use crate::capsule::{CapsuleError, TruncatedCapsule};
use crate::{frame, stream_header};
use wtp_core::bytes;
use wtp_core::error::ErrorCode;

impl frame::ParseError {
    /// Returns the error code, or `None` for an unknown frame, which is not an error and must be
    /// ignored (RFC 9114, section 9).
    pub fn code(&self) -> Option<ErrorCode>
        ensures { result ≡ frame_code self.now }
    {
        match self {
            frame::ParseError::UnknownFrame => None,
            frame::ParseError::InvalidSessionId => Some(ErrorCode::Id),
            frame::ParseError::PayloadTooBig => Some(ErrorCode::ExcessiveLoad),
        }
    }
}

impl From<stream_header::ParseError> for ErrorCode {
    ghost from_gives = { λ fault code. code ≡ header_code fault };

    /// Returns the error code. An unknown stream type ends only that stream, never the connection
    /// (RFC 9114, section 6.2).
    fn from(fault: stream_header::ParseError) -> ErrorCode {
        match fault {
            stream_header::ParseError::UnknownStream => ErrorCode::StreamCreation,
            stream_header::ParseError::InvalidSessionId => ErrorCode::Id,
        }
    }
}

impl frame::IoReadError {
    /// Returns the error code: that of the parse error, or [`ErrorCode::Frame`] if the source ended
    /// inside a frame (RFC 9114, section 7.1).
    ///
    /// Returns `None` for an unknown frame, which must be ignored, and for every other error of the
    /// source.
    pub fn code(&self) -> Option<ErrorCode>
        ensures { result ≡ frame_read_code self.now }
    {
        match self {
            frame::IoReadError::Parse(fault) => fault.code(),
            frame::IoReadError::IO(bytes::IoReadError::UnexpectedFin) => Some(ErrorCode::Frame),
            frame::IoReadError::IO(_) => None,
        }
    }
}

impl stream_header::IoReadError {
    /// Returns the error code of the parse error.
    ///
    /// Returns `None` for an error of the source: a stream that ends or is reset before its header
    /// is complete must be tolerated (RFC 9114, section 6.2).
    pub fn code(&self) -> Option<ErrorCode>
        ensures { result ≡ header_read_code self.now }
    {
        match self {
            stream_header::IoReadError::Parse(stream_header::ParseError::UnknownStream) => {
                Some(ErrorCode::StreamCreation)
            }
            stream_header::IoReadError::Parse(stream_header::ParseError::InvalidSessionId) => {
                Some(ErrorCode::Id)
            }
            stream_header::IoReadError::IO(_) => None,
        }
    }
}

impl CapsuleError {
    /// Returns the error code of a received capsule, or `None` if memory allocation failed. A value
    /// that is too long is an error of the capsule protocol (RFC 9297, section 5.2).
    pub fn code(&self) -> Option<ErrorCode>
        ensures { result ≡ capsule_code self.now }
    {
        match self {
            CapsuleError::TooLong => Some(ErrorCode::Datagram),
            CapsuleError::Memory => None,
        }
    }
}

impl From<TruncatedCapsule> for ErrorCode {
    ghost from_gives = { λ _ code. code ≡ Message };

    /// Returns [`ErrorCode::Message`]: a message whose stream ends within a capsule is malformed
    /// (RFC 9297, section 3.3; RFC 9114, section 4.1.2).
    fn from(_fault: TruncatedCapsule) -> ErrorCode {
        ErrorCode::Message
    }
}
