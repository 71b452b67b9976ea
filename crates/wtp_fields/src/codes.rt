//! The error codes of malformed messages.
ghost use Rattle.std.specs.Prelude.{◌≡◌};
ghost use Rattle.wtp_fields.specs.FieldCodes.{message_code};

use crate::session::HeadersParseError;
use wtp_core::error::ErrorCode;

impl HeadersParseError {
    /// Returns the error code, or `None` if memory allocation failed.
    pub fn code(&self) -> Option<ErrorCode>
        ensures { result ≡ message_code self.now }
    {
        match self {
            HeadersParseError::Memory => None,
            HeadersParseError::MissingMethod
            | HeadersParseError::MethodNotConnect
            | HeadersParseError::MissingScheme
            | HeadersParseError::SchemeNotHttps
            | HeadersParseError::MissingProtocol
            | HeadersParseError::ProtocolNotWebTransport
            | HeadersParseError::MissingAuthority
            | HeadersParseError::MissingPath
            | HeadersParseError::MissingStatusCode
            | HeadersParseError::InvalidStatusCode => Some(ErrorCode::Message),
        }
    }
}
