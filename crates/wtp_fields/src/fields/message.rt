//! Requests and responses of sessions as field lists (RFC 9114, sections 4.1.2 and 4.3; RFC 9220,
//! section 3), and the conversion of a list to a header map.
ghost use Rattle.std.specs.Prelude.{◌≡◌, ◌↔◌, ◌<◌, true, IsTrue, IfSome, None, Some, SomeIff};
ghost use Rattle.std.specs.Prelude.{MatchResult};
ghost use Rattle.std.specs.Option.{option_copied};
ghost use Rattle.std.specs.Str.{is_utf8};
ghost use Rattle.wtp_qpack.specs.FieldLines.{AreUtf8Fields};
ghost use Rattle.wtp_fields.specs.SessionRequest.{fault_unless};
ghost use Rattle.wtp_fields.specs.FieldMessages.{RequestIs, digit_of, three_digits, status_of};
ghost use Rattle.wtp_fields.specs.FieldMessages.{MapIs};

use super::FieldList;
use crate::headers::Headers;
use crate::session::HeadersParseError;
use std::alloc::{AllocError, Global};
use thiserror::Error;
use wtp_core::ids::StatusCode;

/// The target of a request for a session (RFC 9110, section 7.1). Both parts are bytes, not
/// necessarily UTF-8.
#[derive(Clone, Copy, Debug, PartialEq, Eq)]
pub struct RequestTarget<'a> {
    /// The value of `:authority`.
    pub authority: &'a [u8],
    /// The value of `:path`.
    pub path: &'a [u8],
}

/// The reason why a list was not converted to a header map.
#[derive(Debug, Drop, Clone, Copy, PartialEq, Eq, Error)]
pub enum ToHeadersError {
    /// A name or a value is not UTF-8.
    #[error("a field is not UTF-8")]
    NotUtf8,
    /// Memory allocation failed.
    #[error("no memory")]
    Memory,
}

impl From<AllocError> for ToHeadersError {
    ghost use Rattle.std.specs.Prelude.{◌≡◌};
    ghost use Rattle.wtp_fields.specs.declared.fields.message.ToHeadersError.TheVariants.{Memory};

    ghost from_gives = { λ _ e. e ≡ Memory };

    fn from(_e: AllocError) -> ToHeadersError {
        ToHeadersError::Memory
    }
}

impl FieldList {
    /// Checks that the list is a request for a session, and returns its target (RFC 9220, section
    /// 3; RFC 9114, section 4.3.1).
    ///
    /// Returns the first error in the order of [`HeadersParseError`], and never `Memory`. Each
    /// means that the message is malformed (RFC 9114, section 4.1.2), which ends only the stream.
    /// The checks are those of [`SessionRequest`](crate::session::SessionRequest); the last value
    /// of a repeated field counts. The other rules of RFC 9114, sections 4.2 and 4.3, such as those
    /// on the order of fields and on repeated pseudo-header fields, are not checked.
    #[tactic(auto, unfolding(crate::specs::FieldMessages::request_fault))]
    pub fn session_request(&self) -> Result<RequestTarget<'_>, HeadersParseError>
        ensures { RequestIs self.now result }
    {
        expect_value(
            self.last(b":method"),
            b"CONNECT",
            HeadersParseError::MissingMethod,
            HeadersParseError::MethodNotConnect,
        )?;
        expect_value(
            self.last(b":scheme"),
            b"https",
            HeadersParseError::MissingScheme,
            HeadersParseError::SchemeNotHttps,
        )?;
        expect_value(
            self.last(b":protocol"),
            b"webtransport",
            HeadersParseError::MissingProtocol,
            HeadersParseError::ProtocolNotWebTransport,
        )?;
        let Some(authority) = self.last(b":authority") else {
            return Err(HeadersParseError::MissingAuthority);
        };
        let Some(path) = self.last(b":path") else {
            return Err(HeadersParseError::MissingPath);
        };
        Ok(RequestTarget { authority, path })
    }

    /// Returns the status code of a response: the value of `:status`, which must have exactly three
    /// decimal digits and be from 100 to 599 (RFC 9110, section 15; RFC 9114, section 4.3.2).
    ///
    /// Returns `MissingStatusCode` if there is no `:status`, and `InvalidStatusCode` for any other
    /// value. Both mean that the message is malformed (RFC 9114, section 4.1.2), which ends only
    /// the stream. The last value of a repeated `:status` counts. Other pseudo-header fields are
    /// not rejected.
    #[tactic(auto, unfolding(crate::specs::FieldMessages::status_by))]
    pub fn status(&self) -> Result<StatusCode, HeadersParseError>
        ensures { result ≡ status_of self.now }
    {
        let Some(text) = self.last(b":status") else {
            return Err(HeadersParseError::MissingStatusCode);
        };
        let Some(code) = three_digits(text) else {
            return Err(HeadersParseError::InvalidStatusCode);
        };
        match StatusCode::try_from_u32(code) {
            Ok(code) => Ok(code),
            Err(_) => Err(HeadersParseError::InvalidStatusCode),
        }
    }

    /// Returns whether all names and values are UTF-8.
    pub fn is_utf8(&self) -> bool
        ensures { IsTrue result ↔ AreUtf8Fields self.now }
    {
        let mut fields = self.iter();
        while let Some(field) = fields.next() {
            if text_of(field.name).is_none() || text_of(field.value).is_none() {
                return false;
            }
        }
        true
    }

    /// Converts the list to a header map. The last value of a repeated name counts.
    ///
    /// Returns [`ToHeadersError::NotUtf8`] if a name or a value is not UTF-8, before allocating
    /// anything, and [`ToHeadersError::Memory`] if allocation fails.
    pub fn to_headers(&self, alloc: Global) -> Result<Headers, ToHeadersError>
        ensures { MapIs self.now result }
    {
        if !self.is_utf8() {
            return Err(ToHeadersError::NotUtf8);
        }
        let mut headers = Headers::new(alloc);
        let mut fields = self.iter();
        while let Some(field) = fields.next() {
            let Some(name) = text_of(field.name) else {
                return Err(ToHeadersError::NotUtf8);
            };
            let Some(value) = text_of(field.value) else {
                return Err(ToHeadersError::NotUtf8);
            };
            headers.insert(name, value)?;
        }
        Ok(headers)
    }
}

/// Returns the bytes as a text, or `None` if they are not UTF-8.
fn text_of(bytes: &[u8]) -> Option<&str>
    ensures { SomeIff (option_copied result) (is_utf8 bytes.now ≡ true) bytes.now }
{
    match str::from_utf8(bytes) {
        Ok(text) => Some(text),
        Err(_) => None,
    }
}

/// Checks that a field has the value `text`. Returns `missing` if there is no value, and `other` if
/// it is a different one.
fn expect_value(
    value: Option<&[u8]>,
    text: &[u8],
    missing: HeadersParseError,
    other: HeadersParseError,
) -> Result<(), HeadersParseError>
    ensures { MatchResult result
        (λ _. fault_unless text.now missing other (option_copied value.entry) ≡ None)
        (λ fault. fault_unless text.now missing other (option_copied value.entry) ≡ Some fault) }
{
    match value {
        None => Err(missing),
        Some(value) if value == text => Ok(()),
        Some(_) => Err(other),
    }
}

/// Returns the decimal digit that a byte is in ASCII, or `None` if it is none.
fn digit_of(byte: u8) -> Option<u32>
    ensures digit { result ≡ digit_of byte }
    ensures small { IfSome result (λ digit. digit < 10) }
{
    if byte > 47 && byte < 58 {
        Some(u32::from(byte) - 48)
    } else {
        None
    }
}

/// Parses a number of exactly three decimal digits, as a status code has (RFC 9110, section 15).
pub fn three_digits(text: &[u8]) -> Option<u32>
    ensures { result ≡ three_digits text.now }
{
    match text {
        [a, b, c] => Some(digit_of(*a)? * 100 + digit_of(*b)? * 10 + digit_of(*c)?),
        _ => None,
    }
}
