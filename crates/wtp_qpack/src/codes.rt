//! The error codes of the faults of field sections.
ghost use Rattle.std.specs.Prelude.{◌≡◌};
ghost use Rattle.wtp_qpack.specs.SectionCodes.{section_code};

use crate::qpack::DecodingError;
use wtp_core::error::ErrorCode;

impl DecodingError {
    /// Returns the error code, or `None` if memory allocation failed.
    pub fn code(&self) -> Option<ErrorCode>
        ensures { result ≡ section_code self.now }
    {
        match self {
            DecodingError::UnexpectedFin
            | DecodingError::IntegerOverflow
            | DecodingError::InvalidString
            | DecodingError::DynamicNotSupported
            | DecodingError::IndexNotfound => Some(ErrorCode::Decompression),
            DecodingError::Memory => None,
        }
    }
}
