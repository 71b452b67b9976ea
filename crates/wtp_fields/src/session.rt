//! The first messages of a session: the request and the response.
ghost use Rattle.std.specs.Prelude.{◌≡◌, Err};
ghost use Rattle.wtp_wire.specs.Content.{kind_in, payload_in};
ghost use Rattle.wtp_qpack.specs.FieldSection.{SectionNeedsMemory};
ghost use Rattle.wtp_fields.specs.Headers.{GivesUnlessRefused};
ghost use Rattle.wtp_fields.specs.SessionRequest.{request_in};

mod request;
mod response;

use crate::headers::Headers;
pub use request::{InsertError, ReservedHeader, SessionRequest, UrlParseError};
pub use response::{AddError, SessionResponse, response_of_frame};
use std::alloc::{AllocError, Global};
use thiserror::Error;
use wtp_core::error::{ErrorCode, Refused};
use wtp_wire::frame::{Frame, FrameKind};

/// The reason why a header map is not a request or not a response.
#[derive(Debug, Drop, PartialEq, Eq, Error)]
pub enum HeadersParseError {
    /// A request without `:method`.
    #[error("':method' field is missing")]
    MissingMethod,
    /// A request whose `:method` is not `CONNECT`.
    #[error("':method' is not CONNECT")]
    MethodNotConnect,
    /// A request without `:scheme`.
    #[error("':scheme' field is missing")]
    MissingScheme,
    /// A request whose `:scheme` is not `https`.
    #[error("':scheme' is not 'https'")]
    SchemeNotHttps,
    /// A request without `:protocol`.
    #[error("':protocol' field is missing")]
    MissingProtocol,
    /// A request whose `:protocol` is not `webtransport`.
    #[error("':protocol' is not 'webtransport'")]
    ProtocolNotWebTransport,
    /// A request without `:authority`.
    #[error("':authority' field is missing")]
    MissingAuthority,
    /// A request without `:path`.
    #[error("':path' field is missing")]
    MissingPath,
    /// A response without `:status`.
    #[error("':status' field is missing")]
    MissingStatusCode,
    /// A response whose `:status` is not a status code from 100 to 599.
    #[error("invalid HTTP status code")]
    InvalidStatusCode,
    /// Memory allocation failed.
    #[error("no memory")]
    Memory,
}

impl From<AllocError> for HeadersParseError {
    ghost use Rattle.std.specs.Prelude.{◌≡◌};
    ghost use Rattle.wtp_fields.specs.declared.session.HeadersParseError.TheVariants.{Memory};

    ghost from_gives = { λ _ e. e ≡ Memory };

    fn from(_e: AllocError) -> HeadersParseError {
        HeadersParseError::Memory
    }
}

/// Parses the request in a HEADERS frame (RFC 9114, sections 4.1.2 and 4.3.1; RFC 9220, section 3).
///
/// Returns [`Refused::Code`] with [`ErrorCode::FrameUnexpected`] for a frame of another kind, with
/// [`ErrorCode::Decompression`] for a payload that is not a field section, and with
/// [`ErrorCode::Message`] for a header map that is not a request. Returns [`Refused::Memory`] if
/// allocation fails, which is possible only at a field line after valid ones that is valid too, or
/// that has a Huffman text with no fault before it. The frame can then be read again.
pub fn request_of_frame(alloc: Global, frame: &Frame<'_>) -> Result<SessionRequest, Refused>
    ensures read { GivesUnlessRefused result (request_in frame.now) }
    ensures memory { result ≡ Err Refused.Memory
        → (kind_in frame.now ≡ FrameKind.Headers) × SectionNeedsMemory (payload_in frame.now) }
{
    let FrameKind::Headers = frame.kind() else {
        return Err(Refused::Code(ErrorCode::FrameUnexpected));
    };
    let headers = Headers::with_frame(alloc, frame)?;
    match SessionRequest::try_from(headers) {
        Ok(request) => Ok(request),
        Err(_) => Err(Refused::Code(ErrorCode::Message)),
    }
}
