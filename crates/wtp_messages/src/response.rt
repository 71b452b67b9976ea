//! Responses (RFC 9114, sections 4.1 and 4.3.2; RFC 9110, section 15).
ghost use Rattle.std.specs.Prelude.{◌≡◌, true, false, Some, MatchOption, MatchResult, nat_lt};
ghost use Rattle.wtp_fields.specs.FieldMessages.{three_digits as three_digits_of};
ghost use Rattle.wtp_messages.specs.Response.{is_status_text, is_success as is_success_status};
ghost use Rattle.wtp_messages.specs.Response.{status_of, section_kind as section_kind_of, expected as expected_length};
ghost use Rattle.wtp_messages.specs.Response.{status_breaks, response_breaks, HasNoContent, IsResponse};
ghost use Rattle.wtp_messages.specs.Response.{forbids_length as forbids_length_is, has_forbidden_length};

use crate::content::Content;
use crate::malformed::Malformed;
use crate::names::has_field;
use crate::section::{SectionKind, check_section};
use wtp_fields::fields::{FieldList, three_digits};

/// What a request asked for, as far as the meaning of its response depends on it.
#[derive(Clone, Copy, Debug, PartialEq, Eq)]
pub enum Asked {
    /// A HEAD request, whose responses have no content.
    Head,
    /// A CONNECT request other than for a session, whose 2xx response opens a tunnel.
    Connect,
    /// A request for a session of WebTransport.
    Session,
    /// Any other request.
    Other,
}

/// What a response says.
#[derive(Clone, Copy, Debug, PartialEq, Eq)]
pub struct Response {
    /// The status code: from 100 to 999, and not 101. One from 600 on is to be handled as 5xx (RFC
    /// 9110, section 15).
    pub status: u32,
    /// The content that is to come. Of a 2xx response to a CONNECT request it is any number of bytes,
    /// since a tunnel or a session follows (RFC 9110, section 9.3.6). Of an interim response, of any
    /// other one with status 204 or 304, and of one to a HEAD request it is none.
    pub content: Content,
}

impl Response {
    /// Reads a response to a request.
    ///
    /// Returns a rule that the response breaks, if it breaks one; then it is malformed (RFC 9114,
    /// section 4.1.2). Of several broken rules it may be any.
    #[tactic(auto, using(crate::proofs::ResponseLemmas::well_formed, crate::proofs::ResponseLemmas::status_by_rows, crate::proofs::ResponseLemmas::by_section, crate::proofs::ResponseLemmas::by_status, crate::proofs::ResponseLemmas::as_announced, crate::proofs::ResponseLemmas::response_error))]
    pub fn read(list: &FieldList, asked: Asked) -> Result<Self, Malformed>
        ensures { MatchResult result (λ response. IsResponse asked list.now response)
            (λ rule. response_breaks asked list.now rule ≡ true) }
    {
        let announced = check_section(list, section_kind(list, asked))?;
        let Some(text) = list.first(b":status") else {
            return Err(Malformed::MissingStatus);
        };
        let Some(status) = status_in(text) else {
            return Err(Malformed::InvalidStatus);
        };
        check_session(list, asked, status)?;
        Ok(Response {
            status,
            content: Content::new(expected(asked, status, announced)),
        })
    }

    /// Checks that a server may send the response with these fields to a request that asked for this: with
    /// status 1xx or 204, or 2xx to a CONNECT request, it has no `content-length` (RFC 9110, sections 8.6
    /// and 9.3.6). A response that is received may have it.
    ///
    /// Returns [`Malformed::InvalidContentLength`] if there is one.
    pub fn check_sent(&self, list: &FieldList, asked: Asked) -> Result<(), Malformed>
        ensures { MatchResult result
            (λ _. has_forbidden_length asked list.now self.now.status ≡ false)
            (λ rule. (has_forbidden_length asked list.now self.now.status ≡ true)
            × (rule ≡ Malformed.InvalidContentLength)) }
    {
        if forbids_length(asked, self.status) && has_field(list, b"content-length") {
            return Err(Malformed::InvalidContentLength);
        }
        Ok(())
    }

    /// Returns whether the response is interim, so that another one follows (RFC 9110, section
    /// 15.2).
    pub fn is_interim(&self) -> bool
        ensures { result ≡ nat_lt self.now.status 200 }
    {
        self.status < 200
    }
}

/// Returns the kind of the header section of a response.
fn section_kind(list: &FieldList, asked: Asked) -> SectionKind
    ensures { result ≡ section_kind_of asked list.now }
{
    if asked != Asked::Connect {
        return SectionKind::Response;
    }
    let Some(text) = list.first(b":status") else {
        return SectionKind::Response;
    };
    match three_digits(text) {
        Some(status) if is_success(status) => SectionKind::Tunnel,
        _ => SectionKind::Response,
    }
}

/// Checks a response that accepts a session. Returns a rule that it breaks.
fn check_session(list: &FieldList, asked: Asked, status: u32) -> Result<(), Malformed>
    requires { status_of list.now ≡ Some status }
    ensures { MatchResult result (λ _. HasNoContent asked list.now)
        (λ rule. status_breaks asked list.now rule ≡ true) }
{
    if asked != Asked::Session || !is_success(status) {
        return Ok(());
    }
    if status == 204 || status == 205 || status == 206 {
        return Err(Malformed::UnexpectedStatus);
    }
    if has_field(list, b"content-length") || has_field(list, b"content-type") {
        return Err(Malformed::ContentField);
    }
    Ok(())
}

/// Returns the status that a text denotes, or `None` if it is invalid.
fn status_in(text: &[u8]) -> Option<u32>
    ensures { MatchOption result (is_status_text text.now ≡ false)
        (λ code. (is_status_text text.now ≡ true) × (three_digits_of text.now ≡ Some code)) }
{
    let code = three_digits(text)?;
    if code < 100 || code == 101 {
        return None;
    }
    Some(code)
}

/// Returns whether a status is one of success.
fn is_success(status: u32) -> bool
    ensures { result ≡ is_success_status (Some status) }
{
    status > 199 && status < 300
}

/// Returns the length of the content that is to come, if it is known.
fn expected(asked: Asked, status: u32, announced: Option<u64>) -> Option<u64>
    ensures { result ≡ expected_length asked status announced }
{
    if (asked == Asked::Connect || asked == Asked::Session) && is_success(status) {
        return None;
    }
    if asked == Asked::Head || status < 200 || status == 204 || status == 304 {
        return Some(0);
    }
    announced
}

/// Returns whether a server must not send `content-length` in a response with this status.
fn forbids_length(asked: Asked, status: u32) -> bool
    ensures { result ≡ forbids_length_is asked status }
{
    let is_tunnel = asked == Asked::Connect || asked == Asked::Session;
    status < 200 || status == 204 || (is_tunnel && is_success(status))
}
