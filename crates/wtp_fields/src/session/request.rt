//! Requests for sessions.
ghost use Rattle.std.specs.Prelude.{◌≡◌, ◌≢◌, ◌⊎◌, ◌↔◌, MatchResult, None, Some, Ok, Err, OnOk};
ghost use Rattle.std.specs.Prelude.{OnErr, IfOk, IfErr, IsTrue, IsErrOf, codes, string_bytes};
ghost use Rattle.std.specs.Prelude.{length, ◌≤◌, ◌^◌};
ghost use Rattle.std.specs.Option.{option_copied};
ghost use Rattle.url.specs.Parser.{parse_url};
ghost use Rattle.wtp_qpack.specs.Field.{put, field_value};
ghost use Rattle.wtp_fields.specs.SessionRequest.{is_reserved_name, fault_of, fault_unless};
ghost use Rattle.wtp_fields.specs.SessionRequest.{fault_without, authority_of, with_query};
ghost use Rattle.wtp_fields.specs.SessionRequest.{five_fields, request_for, request_at};
ghost use Rattle.wtp_fields.specs.SessionRequest.{url_error_of};
ghost use Rattle.wtp_fields.specs.declared.session.request.UrlParseError.TheVariants as answered;

use super::HeadersParseError;
use crate::headers::Headers;
use std::alloc::{AllocError, Global};
use std::marker::Model;
use thiserror::Error;
use url::{ParseError, Url};

/// The reason why no request was created for a URL.
#[derive(Debug, Drop, PartialEq, Eq, Error)]
pub enum UrlParseError {
    /// The URL has no host.
    #[error("host is missing in the URL")]
    EmptyHost,
    /// The host is not a valid international domain name.
    #[error("invalid international domain name")]
    IdnaError,
    /// The port is not a number below 2^16.
    #[error("invalid port number")]
    InvalidPort,
    /// The host ends in a number and is not an IPv4 address.
    #[error("invalid IPv4 address")]
    InvalidIpv4Address,
    /// The host is in brackets and is not an IPv6 address.
    #[error("invalid IPv6 address")]
    InvalidIpv6Address,
    /// The host has a character that is not allowed in a domain.
    #[error("invalid domain character")]
    InvalidDomainCharacter,
    /// The text has no scheme.
    #[error("relative URL without a base")]
    RelativeUrlWithoutBase,
    /// The text is relative to a URL that is not a base. This does not occur, because no base is
    /// given.
    #[error("relative URL with a cannot-be-a-base base")]
    RelativeUrlWithCannotBeABaseBase,
    /// A host was set on a URL that cannot have one. This does not occur, because no host is set.
    #[error("a cannot-be-a-base URL doesn’t have a host to set")]
    SetHostOnCannotBeABaseUrl,
    /// The text is too long. This error is possible for any text of 16 MiB (2^24 bytes) or more,
    /// even if its URL is valid and shorter than 4 GB, and never occurs for a shorter text.
    #[error("URLs more than 4 GB are not supported")]
    Overflow,
    /// Another error of the URL.
    #[error("unknown error during URL parsing")]
    Unknown,
    /// The URL's scheme is not `https`.
    #[error("URL scheme is not 'https'")]
    SchemeNotHttps,
    /// Memory allocation failed.
    #[error("no memory")]
    Memory,
}

impl From<AllocError> for UrlParseError {
    ghost from_gives = { λ _ e. e ≡ answered.Memory };

    fn from(_e: AllocError) -> UrlParseError {
        UrlParseError::Memory
    }
}

impl From<ParseError> for UrlParseError {
    ghost from_gives = { λ fault e. e ≡ url_error_of fault };

    fn from(fault: ParseError) -> UrlParseError {
        match fault {
            ParseError::EmptyHost => UrlParseError::EmptyHost,
            ParseError::IdnaError => UrlParseError::IdnaError,
            ParseError::InvalidPort => UrlParseError::InvalidPort,
            ParseError::InvalidIpv4Address => UrlParseError::InvalidIpv4Address,
            ParseError::InvalidIpv6Address => UrlParseError::InvalidIpv6Address,
            ParseError::InvalidDomainCharacter => UrlParseError::InvalidDomainCharacter,
            ParseError::RelativeUrlWithoutBase => UrlParseError::RelativeUrlWithoutBase,
            ParseError::RelativeUrlWithCannotBeABaseBase => {
                UrlParseError::RelativeUrlWithCannotBeABaseBase
            }
            ParseError::SetHostOnCannotBeABaseUrl => UrlParseError::SetHostOnCannotBeABaseUrl,
            ParseError::Overflow => UrlParseError::Overflow,
            ParseError::CannotSet => UrlParseError::Unknown,
            ParseError::OutOfMemory => UrlParseError::Memory,
        }
    }
}

/// The minimum length in bytes, 16 MiB, of a text whose URL may reach 4 GB, which `url` rejects.
/// The URL of a shorter text would need more than 256 bytes for each byte of the text.
const MIN_OVERFLOW_LEN: usize = 1 << 24;

/// The name is reserved: it is that of a field that every request sets itself.
#[derive(Debug, Drop, PartialEq, Eq, Error)]
#[error("used reserved header")]
pub struct ReservedHeader;

/// The reason why a field was not inserted into a request.
#[derive(Debug, Drop, PartialEq, Eq, Error)]
pub enum InsertError {
    /// The name is one of [`SessionRequest::RESERVED_HEADERS`].
    #[error("{0}")]
    Reserved(ReservedHeader),
    /// Memory allocation failed.
    #[error("no memory")]
    Memory,
}

impl From<AllocError> for InsertError {
    ghost use Rattle.std.specs.Prelude.{◌≡◌};
    ghost use Rattle.wtp_fields.specs.declared.session.request.InsertError.TheVariants.{Memory};

    ghost from_gives = { λ _ e. e ≡ Memory };

    fn from(_e: AllocError) -> InsertError {
        InsertError::Memory
    }
}

/// The request for a session: an extended CONNECT request (RFC 9220, section 3) for WebTransport.
#[derive(Debug, Drop)]
pub struct SessionRequest {
    headers: Headers,
}

// In contracts, a request is its header map, which is always a valid request.
impl Model for SessionRequest {
    ghost use Rattle.std.specs.Prelude.{◌≡◌, List, None};
    ghost use Rattle.wtp_qpack.specs.Field.{Field};
    ghost use Rattle.wtp_fields.specs.SessionRequest.{fault_of};

    ghost Value = { List Field };

    ghost view = { λ request. request.headers };

    ghost invariant = { λ request. fault_of request.headers ≡ None };
}

impl SessionRequest {
    /// The names of the fields that every request sets itself.
    pub const RESERVED_HEADERS: &'static [&'static str] = &[
        ":method",
        ":scheme",
        ":protocol",
        ":authority",
        ":path",
    ];

    /// Creates a request for a session at a URL with the scheme `https` (RFC 9220, section 3; RFC
    /// 9114, section 4.3.1).
    ///
    /// `:authority` is the URL's user part, its host, and its port if that is not the default.
    /// `:path` is the URL's path and query.
    ///
    /// Returns the error of the URL parser, under the same name, for an invalid URL,
    /// [`UrlParseError::SchemeNotHttps`] for another scheme, and [`UrlParseError::Memory`] if
    /// allocation fails. [`UrlParseError::Overflow`] is possible for any text of 16 MiB (2^24
    /// bytes) or more, whatever its URL is, and never occurs for a shorter text.
    pub fn new(alloc: Global, url: &str) -> Result<Self, UrlParseError>
        ensures request { MatchResult result
            (λ request. request_at (parse_url None url.now) ≡ Ok request)
            (λ e. (request_at (parse_url None url.now) ≡ Err e)
            ⊎ ((e ≡ answered.Memory) ⊎ (e ≡ answered.Overflow))) }
        ensures overflow { result ≡ Err answered.Overflow → 2 ^ 24 ≤ length url.now }
    {
        let parsed = match Url::parse(alloc, url) {
            Ok(parsed) => parsed,
            Err(ParseError::Overflow) if url.len() < MIN_OVERFLOW_LEN => {
                return Err(UrlParseError::Memory);
            }
            Err(fault) => return Err(UrlParseError::from(fault)),
        };
        Self::for_url(alloc, &parsed)
    }

    /// Creates the request for a parsed URL.
    #[tactic(auto, unfolding(crate::specs::SessionRequest::request_for))]
    fn for_url(alloc: Global, url: &Url) -> Result<Self, UrlParseError>
        ensures request { MatchResult result (λ request. request_for url.now ≡ Ok request)
            (λ e. e ≢ answered.Memory → request_for url.now ≡ Err e) }
        ensures no_overflow { IfErr result (λ e. e ≢ answered.Overflow) }
    {
        if url.scheme() != "https" {
            return Err(UrlParseError::SchemeNotHttps);
        }
        let path = path_with_query(alloc, url.path(), url.query())?;
        let headers = five_fields(alloc, authority(url), path.as_str())?;
        Ok(SessionRequest { headers })
    }

    /// Returns the value of `:authority`.
    pub fn authority(&self) -> &str
        ensures { field_value (codes ":authority") self.now ≡ Some result.now }
    {
        self.headers.get(":authority").unwrap()
    }

    /// Returns the value of `:path`.
    pub fn path(&self) -> &str
        ensures { field_value (codes ":path") self.now ≡ Some result.now }
    {
        self.headers.get(":path").unwrap()
    }

    /// Returns the value of `origin`, if there is one.
    pub fn origin(&self) -> Option<&str>
        ensures { option_copied result ≡ field_value (codes "origin") self.now }
    {
        self.headers.get("origin")
    }

    /// Returns the value of `user-agent`, if there is one.
    pub fn user_agent(&self) -> Option<&str>
        ensures { option_copied result ≡ field_value (codes "user-agent") self.now }
    {
        self.headers.get("user-agent")
    }

    /// Returns the value of a field, or `None` if there is none.
    pub fn get(&self, name: &str) -> Option<&str>
        ensures { option_copied result ≡ field_value name.now self.now }
    {
        self.headers.get(name)
    }

    /// Sets the value of a field, replacing any previous value.
    ///
    /// Returns `Reserved` for the names of [`Self::RESERVED_HEADERS`], before allocating anything,
    /// and `Memory` if allocation fails. On an error, the request is unchanged.
    pub fn insert(&mut self, name: &str, value: &str) -> Result<(), InsertError>
        ensures ok { OnOk result (self.new ≡ put self.old (name.now, value.now)) }
        ensures reserved { IsErrOf result (InsertError.Reserved (record {}))
            ↔ IsTrue (is_reserved_name name.now) }
        ensures err { OnErr result (self.new ≡ self.old) }
    {
        if Self::RESERVED_HEADERS.contains(&name) {
            return Err(InsertError::Reserved(ReservedHeader));
        }
        self.headers.insert(name, value)?;
        Ok(())
    }

    /// Returns the header map.
    pub fn headers(&self) -> &Headers
        ensures headers { result.now ≡ self.now }
        ensures faultless { fault_of self.now ≡ None }
    {
        &self.headers
    }
}

impl TryFrom<Headers> for SessionRequest {
    type Error = HeadersParseError;

    ghost try_from_gives = { λ headers result. MatchResult result
        (λ request. (fault_of headers ≡ None) × (request ≡ headers))
        (λ fault. fault_of headers ≡ Some fault) };

    /// Converts a header map that has the fields of a request (RFC 9114, section 4.3.1; RFC 9220,
    /// section 3). All other fields are kept.
    ///
    /// Returns the first error in the order of [`HeadersParseError`], and never `Memory`, because
    /// nothing is allocated. On an error, the map is dropped.
    fn try_from(headers: Headers) -> Result<Self, HeadersParseError> {
        check(&headers)?;
        Ok(SessionRequest { headers })
    }
}

/// Checks that a field has the value `text`. Returns `missing` if there is no such field, and
/// `other` if it has a different value.
fn expect_value(
    headers: &Headers,
    name: &str,
    text: &str,
    missing: HeadersParseError,
    other: HeadersParseError,
) -> Result<(), HeadersParseError>
    ensures { MatchResult result
        (λ _. fault_unless text.now missing other (field_value name.now headers.now) ≡ None)
        (λ fault.
        fault_unless text.now missing other (field_value name.now headers.now) ≡ Some fault) }
{
    match headers.get(name) {
        None => Err(missing),
        Some(value) if value == text => Ok(()),
        Some(_) => Err(other),
    }
}

/// Checks that a field exists. Returns `missing` if it does not.
fn expect_field(
    headers: &Headers,
    name: &str,
    missing: HeadersParseError,
) -> Result<(), HeadersParseError>
    ensures { MatchResult result
        (λ _. fault_without missing (field_value name.now headers.now) ≡ None)
        (λ fault. fault_without missing (field_value name.now headers.now) ≡ Some fault) }
{
    match headers.get(name) {
        None => Err(missing),
        Some(_) => Ok(()),
    }
}

/// Checks the fields of a request, and returns the first error.
#[tactic(auto, unfolding(crate::specs::SessionRequest::fault_of))]
fn check(headers: &Headers) -> Result<(), HeadersParseError>
    ensures { MatchResult result
        (λ _. fault_of headers.now ≡ None)
        (λ fault. fault_of headers.now ≡ Some fault) }
{
    expect_value(
        headers,
        ":method",
        "CONNECT",
        HeadersParseError::MissingMethod,
        HeadersParseError::MethodNotConnect,
    )?;
    expect_value(
        headers,
        ":scheme",
        "https",
        HeadersParseError::MissingScheme,
        HeadersParseError::SchemeNotHttps,
    )?;
    expect_value(
        headers,
        ":protocol",
        "webtransport",
        HeadersParseError::MissingProtocol,
        HeadersParseError::ProtocolNotWebTransport,
    )?;
    expect_field(headers, ":authority", HeadersParseError::MissingAuthority)?;
    expect_field(headers, ":path", HeadersParseError::MissingPath)
}

/// Returns the authority of a URL.
fn authority(url: &Url) -> &str
    ensures { result.now ≡ authority_of url.now }
{
    url.authority()
}

/// Returns the path, followed by a question mark and the query if there is one.
fn path_with_query(alloc: Global, path: &str, query: Option<&str>) -> Result<String, AllocError>
    ensures { IfOk result (λ text. string_bytes text
        ≡ with_query path.now (option_copied query.entry)) }
{
    let mut text = String::from_str(alloc, path)?;
    if let Some(query) = query {
        text.push('?')?;
        text.push_str(query)?;
    }
    Ok(text)
}

/// Creates the map of the five fields of a request.
#[tactic(auto, unfolding(crate::specs::SessionRequest::five_fields, wtp_qpack::specs::Field::field_map))]
fn five_fields(alloc: Global, authority: &str, path: &str) -> Result<Headers, AllocError>
    ensures { IfOk result (λ headers. headers ≡ five_fields authority.now path.now) }
{
    let mut headers = Headers::new(alloc);
    headers.insert(":method", "CONNECT")?;
    headers.insert(":scheme", "https")?;
    headers.insert(":protocol", "webtransport")?;
    headers.insert(":authority", authority)?;
    headers.insert(":path", path)?;
    Ok(headers)
}
