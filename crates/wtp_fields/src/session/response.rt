//! The response to the request for a session.
ghost use Rattle.std.specs.Prelude.{◌≡◌, ◌↔◌, Some, Err, MatchOption, OnOk, OnErr, IfOk, IsErrOf};
ghost use Rattle.std.specs.Prelude.{codes, option_map};
ghost use Rattle.wtp_wire.specs.Content.{kind_in, payload_in};
ghost use Rattle.wtp_core.specs.Ids.{IsStatus, IsStatusText, status_in};
ghost use Rattle.std.specs.Option.{option_copied};
ghost use Rattle.wtp_qpack.specs.Field.{put, field_value};
ghost use Rattle.wtp_qpack.specs.FieldSection.{SectionNeedsMemory};
ghost use Rattle.wtp_fields.specs.ResponseFrame.{ResponseIn};
ghost use Rattle.wtp_fields.specs.SessionResponse.{status_value, HasStatus, status_alone, ByStatus};

use super::HeadersParseError;
use crate::headers::Headers;
use std::alloc::{AllocError, Global};
use std::marker::Model;
use thiserror::Error;
use wtp_core::error::{ErrorCode, Refused};
use wtp_core::ids::StatusCode;
use wtp_wire::frame::{Frame, FrameKind};

/// The reason a field was not put into a response.
#[derive(Debug, Drop, PartialEq, Eq, Error)]
pub enum AddError {
    /// A `:status` that is not a status code from 100 to 599.
    #[error("invalid HTTP status code")]
    InvalidStatusCode,
    /// Memory allocation failed.
    #[error("no memory")]
    Memory,
}

impl From<AllocError> for AddError {
    ghost use Rattle.std.specs.Prelude.{◌≡◌};
    ghost use Rattle.wtp_fields.specs.declared.session.response.AddError.TheVariants.{Memory};

    ghost from_gives = { λ _ e. e ≡ Memory };

    fn from(_e: AllocError) -> AddError {
        AddError::Memory
    }
}

/// The response to the request for a session: its status code, and other fields.
#[derive(Debug, Drop)]
pub struct SessionResponse {
    headers: Headers,
}

// Contracts treat a response as its header map, which has a status.
impl Model for SessionResponse {
    ghost use Rattle.std.specs.Prelude.{List};
    ghost use Rattle.wtp_qpack.specs.Field.{Field};
    ghost use Rattle.wtp_fields.specs.SessionResponse.{HasStatus};

    ghost Value = { List Field };

    ghost view = { λ response. response.headers };

    ghost invariant = { λ response. HasStatus response.headers };
}

impl SessionResponse {
    /// Returns the response with this status code, and no other field (RFC 9114, section 4.3.2).
    ///
    /// Returns [`AllocError`] if allocation fails.
    pub fn with_status_code(alloc: Global, status_code: StatusCode) -> Result<Self, AllocError>
        ensures { IfOk result (λ response. response ≡ status_alone status_code) }
    {
        let code = status_code.into_inner();
        let text = format!(in alloc; "{code}")?;
        let mut headers = Headers::new(alloc);
        headers.insert(":status", text.as_str())?;
        Ok(SessionResponse { headers })
    }

    /// Returns the response 200 (OK): the session is accepted (RFC 9110, section 15.3.1).
    ///
    /// Returns [`AllocError`] if allocation fails.
    pub fn ok(alloc: Global) -> Result<Self, AllocError>
        ensures { IfOk result (λ response. response ≡ status_alone 200) }
    {
        Self::with_status_code(alloc, StatusCode::OK)
    }

    /// Returns the response 403 (Forbidden; RFC 9110, section 15.5.4).
    ///
    /// Returns [`AllocError`] if allocation fails.
    pub fn forbidden(alloc: Global) -> Result<Self, AllocError>
        ensures { IfOk result (λ response. response ≡ status_alone 403) }
    {
        Self::with_status_code(alloc, StatusCode::FORBIDDEN)
    }

    /// Returns the response 404 (Not Found; RFC 9110, section 15.5.5).
    ///
    /// Returns [`AllocError`] if allocation fails.
    pub fn not_found(alloc: Global) -> Result<Self, AllocError>
        ensures { IfOk result (λ response. response ≡ status_alone 404) }
    {
        Self::with_status_code(alloc, StatusCode::NOT_FOUND)
    }

    /// Returns the response 429 (Too Many Requests; RFC 6585, section 4).
    ///
    /// Returns [`AllocError`] if allocation fails.
    pub fn too_many_requests(alloc: Global) -> Result<Self, AllocError>
        ensures { IfOk result (λ response. response ≡ status_alone 429) }
    {
        Self::with_status_code(alloc, StatusCode::TOO_MANY_REQUESTS)
    }

    /// Returns the status code.
    pub fn code(&self) -> StatusCode
        ensures { option_map status_in (status_value self.now) ≡ Some result }
    {
        let text = self.headers.get(":status").unwrap();
        text.parse::<StatusCode>().unwrap()
    }

    /// Returns the value of a field.
    pub fn get(&self, name: &str) -> Option<&str>
        ensures { option_copied result ≡ field_value name.now self.now }
    {
        self.headers.get(name)
    }

    /// Returns the response of a header map that has a status code, with all of its fields.
    #[tactic(auto, using(crate::proofs::ResponseLemmas::no_status))]
    fn of_map(headers: Headers) -> Option<Self>
        ensures { MatchOption result (¬ HasStatus headers)
            (λ response. HasStatus headers × (response ≡ headers)) }
    {
        let text = headers.get(":status")?;
        if text.parse::<StatusCode>().is_err() {
            return None;
        }
        Some(SessionResponse { headers })
    }

    /// Sets the value of a field, in place of its previous value. On an error nothing changes.
    ///
    /// A `:status` that is not a status code is refused, before anything is allocated. A valid one
    /// is stored as it is written.
    pub fn add(&mut self, name: &str, value: &str) -> Result<(), AddError>
        ensures ok { OnOk result (self.new ≡ put self.old (name.now, value.now)) }
        ensures invalid { IsErrOf result AddError.InvalidStatusCode
            ↔ ((name.now ≡ codes ":status") × ¬ IsStatusText value.now) }
        ensures err { OnErr result (self.new ≡ self.old) }
    {
        if name == ":status" && value.parse::<StatusCode>().is_err() {
            return Err(AddError::InvalidStatusCode);
        }
        self.headers.insert(name, value)?;
        Ok(())
    }

    /// Returns the header map.
    pub fn headers(&self) -> &Headers
        ensures headers { result.now ≡ self.now }
        ensures status { HasStatus self.now }
    {
        &self.headers
    }
}

impl TryFrom<Headers> for SessionResponse {
    type Error = HeadersParseError;

    ghost try_from_gives = { λ headers result. ByStatus (status_value headers) result };

    /// Returns the response with the status code of a header map, and no other field (RFC 9114,
    /// section 4.3.2).
    ///
    /// Returns `MissingStatusCode` if there is no `:status`, and `InvalidStatusCode` if it is not a
    /// status code from 100 to 599, both before anything is allocated, and `Memory` if allocation
    /// fails. The map is dropped in every case.
    fn try_from(headers: Headers) -> Result<Self, HeadersParseError> {
        let Some(text) = headers.get(":status") else {
            return Err(HeadersParseError::MissingStatusCode);
        };
        let Ok(status_code) = text.parse::<StatusCode>() else {
            return Err(HeadersParseError::InvalidStatusCode);
        };
        let response = SessionResponse::with_status_code(headers.allocator(), status_code)?;
        Ok(response)
    }
}

/// Returns the response in a HEADERS frame, with all of its fields (RFC 9114, sections 4.1.2 and
/// 4.3.2).
///
/// Returns [`Refused::Code`] with [`ErrorCode::FrameUnexpected`] for a frame of another kind, with
/// [`ErrorCode::Decompression`] for a payload that is not a field section, and with
/// [`ErrorCode::Message`] for a header map without a status code from 100 to 599. Returns
/// [`Refused::Memory`] if allocation fails, which happens only at a field line after valid ones
/// that is valid too, or that has a Huffman text with no fault before it: the frame can be read
/// again.
pub fn response_of_frame(alloc: Global, frame: &Frame<'_>) -> Result<SessionResponse, Refused>
    ensures read { ResponseIn frame.now result }
    ensures memory { result ≡ Err Refused.Memory
        → (kind_in frame.now ≡ FrameKind.Headers) × SectionNeedsMemory (payload_in frame.now) }
{
    let FrameKind::Headers = frame.kind() else {
        return Err(Refused::Code(ErrorCode::FrameUnexpected));
    };
    let headers = Headers::with_frame(alloc, frame)?;
    match SessionResponse::of_map(headers) {
        Some(response) => Ok(response),
        None => Err(Refused::Code(ErrorCode::Message)),
    }
}
