//! Conversion of a number on the wire to an error code.

ghost use Rattle.std.specs.Prelude.{◌≡◌, ◌≢◌, MatchResult};
ghost use Rattle.wtp_core.specs.declared.error.ErrorCode.{ErrorCode};
ghost use Rattle.wtp_core.specs.ErrorCodes.{code_number};

use super::ErrorCode;
use crate::varint::VarInt;

/// No [`ErrorCode`] has this number. Unknown error codes are treated as [`ErrorCode::NoError`] (RFC
/// 9114, section 8).
#[derive(Debug, Drop, PartialEq, Eq, thiserror::Error)]
#[error("unknown error code")]
pub struct UnknownErrorCode;

/// All error codes.
static CODES: [ErrorCode; 15] = [
    ErrorCode::Datagram,
    ErrorCode::NoError,
    ErrorCode::StreamCreation,
    ErrorCode::ClosedCriticalStream,
    ErrorCode::FrameUnexpected,
    ErrorCode::Frame,
    ErrorCode::ExcessiveLoad,
    ErrorCode::Id,
    ErrorCode::Settings,
    ErrorCode::MissingSettings,
    ErrorCode::RequestRejected,
    ErrorCode::Message,
    ErrorCode::Decompression,
    ErrorCode::BufferedStreamRejected,
    ErrorCode::SessionGone,
];

impl TryFrom<VarInt> for ErrorCode {
    type Error = UnknownErrorCode;

    ghost try_from_gives = { λ number result. MatchResult result (λ code. number ≡ code_number code)
        (λ _. (code : ErrorCode) → number ≢ code_number code) };

    /// Returns the code with this number, the inverse of [`ErrorCode::to_code`].
    ///
    /// Returns an error if no code has this number.
    fn try_from(number: VarInt) -> Result<Self, UnknownErrorCode> {
        for code in &CODES {
            if code.to_code() == number {
                return Ok(*code);
            }
        }
        Err(UnknownErrorCode)
    }
}
