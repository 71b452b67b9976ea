//! Requests (RFC 9114, sections 4.3.1 and 4.4; RFC 8441, section 4).
ghost use Rattle.std.specs.Prelude.{◌≡◌, true, MatchResult};
ghost use Rattle.std.specs.List.{list_all};
ghost use Rattle.std.specs.Option.{option_copied};
ghost use Rattle.wtp_qpack.specs.Field.{field_value};
ghost use Rattle.wtp_messages.specs.Names.{is_and_not};
ghost use Rattle.wtp_messages.specs.Authority.{is_authority as is_authority_text};
ghost use Rattle.wtp_messages.specs.Request.{is_connect as is_connect_request, is_plain_connect as is_plain_connect_request};
ghost use Rattle.wtp_messages.specs.Request.{has_scheme as has_scheme_in, is_http as is_http_request};
ghost use Rattle.wtp_messages.specs.Request.{is_scheme as is_scheme_text, is_scheme_byte as is_scheme_byte_of};
ghost use Rattle.wtp_messages.specs.Request.{is_path as is_path_text, is_path_byte as is_path_byte_of};
ghost use Rattle.wtp_messages.specs.Request.{authority_of as authority_in, host_of, lacks_authority as lacks_authority_in};
ghost use Rattle.wtp_messages.specs.Request.{differ as differ_in, has_bad_authority as has_bad_authority_in};
ghost use Rattle.wtp_messages.specs.Request.{head_breaks, request_breaks, or_host, IsRequest, HasMethod, HasTarget, HasAuthority, HasNoContentField};

use crate::authority::is_authority;
use crate::content::Content;
use crate::malformed::Malformed;
use crate::names::{equal_ignoring_case, has_field, has_value, is_whole_token};
use crate::section::{SectionKind, check_section, is_repeated};
use wtp_fields::fields::FieldList;

/// What a request says.
#[derive(Clone, Copy, Debug, PartialEq, Eq)]
pub struct Request<'a> {
    /// The value of `:method`.
    pub method: &'a [u8],
    /// The value of `:scheme`. Only a CONNECT request without `:protocol` has none.
    pub scheme: Option<&'a [u8]>,
    /// The value of `:authority`, or else that of `host`. In a CONNECT request, and if the scheme is
    /// `http` or `https`, it is there: a host that is not empty, and maybe a port after a colon (RFC
    /// 3986, section 3.2). A CONNECT request without `:protocol` has a port.
    /// The number of its port, and the groups of an IP literal, are not checked.
    pub authority: Option<&'a [u8]>,
    /// The value of `:path`. Only a CONNECT request without `:protocol` has none.
    pub path: Option<&'a [u8]>,
    /// The value of `:protocol`, which only an extended CONNECT request has.
    pub protocol: Option<&'a [u8]>,
    /// The content that is announced.
    pub content: Content,
}

impl<'a> Request<'a> {
    /// Reads a request. `extended`: this endpoint allows extended CONNECT, by its setting
    /// SETTINGS_ENABLE_CONNECT_PROTOCOL (RFC 8441, section 3).
    ///
    /// Returns a rule that the request breaks, if it breaks one; then it is malformed (RFC 9114,
    /// section 4.1.2). Of several broken rules it may be any. The rules are those of the header
    /// section of a request, from [`Malformed::InvalidName`] to [`Malformed::ContentField`].
    #[tactic(auto, using(crate::proofs::RequestLemmas::well_formed, crate::proofs::RequestLemmas::by_section, crate::proofs::RequestLemmas::by_head, crate::proofs::RequestLemmas::request_error))]
    pub fn read(list: &'a FieldList, extended: bool) -> Result<Self, Malformed>
        ensures { MatchResult result (λ request. IsRequest extended list.now request)
            (λ rule. request_breaks extended list.now rule ≡ true) }
    {
        let announced = check_section(list, SectionKind::Request)?;
        check_method(list, extended)?;
        check_target(list, extended)?;
        check_authority(list, extended)?;
        check_session(list, extended)?;
        let Some(method) = list.first(b":method") else {
            return Err(Malformed::MissingMethod);
        };
        Ok(Request {
            method,
            scheme: list.first(b":scheme"),
            authority: authority_of(list),
            path: list.first(b":path"),
            protocol: list.first(b":protocol"),
            content: Content::new(announced),
        })
    }
}

/// Checks the method and the protocol. Returns a rule that the request breaks.
fn check_method(list: &FieldList, extended: bool) -> Result<(), Malformed>
    ensures { MatchResult result (λ _. HasMethod extended list.now)
        (λ rule. head_breaks extended list.now rule ≡ true) }
{
    let Some(method) = list.first(b":method") else {
        return Err(Malformed::MissingMethod);
    };
    if !is_whole_token(method) {
        return Err(Malformed::InvalidMethod);
    }
    if let Some(protocol) = list.first(b":protocol") {
        if !(extended && is_connect(list)) {
            return Err(Malformed::UnexpectedProtocol);
        }
        if !is_whole_token(protocol) {
            return Err(Malformed::InvalidProtocol);
        }
    }
    Ok(())
}

/// Checks the scheme and the path. Returns a rule that the request breaks.
fn check_target(list: &FieldList, extended: bool) -> Result<(), Malformed>
    ensures { MatchResult result (λ _. HasTarget extended list.now)
        (λ rule. head_breaks extended list.now rule ≡ true) }
{
    let scheme = list.first(b":scheme");
    let path = list.first(b":path");
    if is_plain_connect(list) {
        if scheme.is_some() || path.is_some() {
            return Err(Malformed::ConnectWithTarget);
        }
        return Ok(());
    }
    let Some(scheme) = scheme else {
        return Err(Malformed::MissingScheme);
    };
    if !is_scheme(scheme) {
        return Err(Malformed::InvalidScheme);
    }
    let Some(path) = path else {
        return Err(Malformed::MissingPath);
    };
    if is_http(list) && !is_path(has_value(list, b":method", b"OPTIONS"), path) {
        return Err(Malformed::InvalidPath);
    }
    Ok(())
}

/// Checks the authority. Returns a rule that the request breaks.
fn check_authority(list: &FieldList, extended: bool) -> Result<(), Malformed>
    ensures { MatchResult result (λ _. HasAuthority extended list.now)
        (λ rule. head_breaks extended list.now rule ≡ true) }
{
    if !(is_connect(list) || is_http(list)) {
        return Ok(());
    }
    if lacks_authority(list) {
        return Err(Malformed::MissingAuthority);
    }
    if has_bad_authority(list) {
        return Err(Malformed::InvalidAuthority);
    }
    Ok(())
}

/// Checks a request for a session of WebTransport. Returns a rule that the request breaks.
fn check_session(list: &FieldList, extended: bool) -> Result<(), Malformed>
    ensures { MatchResult result (λ _. HasNoContentField extended list.now)
        (λ rule. head_breaks extended list.now rule ≡ true) }
{
    if !has_value(list, b":protocol", b"webtransport") {
        return Ok(());
    }
    if !has_scheme(list, b"https") {
        return Err(Malformed::InvalidScheme);
    }
    if has_field(list, b"content-length") || has_field(list, b"content-type") {
        return Err(Malformed::ContentField);
    }
    Ok(())
}

/// Returns whether the method is CONNECT.
fn is_connect(list: &FieldList) -> bool
    ensures { result ≡ is_connect_request list.now }
{
    has_value(list, b":method", b"CONNECT")
}

/// Returns whether the request is a CONNECT without `:protocol` (RFC 9114, section 4.4).
fn is_plain_connect(list: &FieldList) -> bool
    ensures { result ≡ is_plain_connect_request list.now }
{
    is_connect(list) && list.first(b":protocol").is_none()
}

/// Returns whether the scheme is `http` or `https`.
fn is_http(list: &FieldList) -> bool
    ensures { result ≡ is_http_request list.now }
{
    has_scheme(list, b"http") || has_scheme(list, b"https")
}

/// Returns whether the scheme is this one, whatever the case of its letters (RFC 3986, section 3.1).
fn has_scheme(list: &FieldList, scheme: &[u8]) -> bool
    ensures { result ≡ has_scheme_in scheme.now list.now }
{
    match list.first(b":scheme") {
        Some(value) => equal_ignoring_case(value, scheme),
        None => false,
    }
}

/// Returns whether a text is a scheme (RFC 3986, section 3.1).
fn is_scheme(text: &[u8]) -> bool
    ensures { result ≡ is_scheme_text text.now }
{
    match text.split_first() {
        Some((first, others)) => first.is_ascii_alphabetic() && are_scheme_bytes(others),
        None => false,
    }
}

/// Returns whether all bytes are allowed in a scheme.
fn are_scheme_bytes(text: &[u8]) -> bool
    ensures { result ≡ list_all is_scheme_byte_of text.now }
{
    for byte in text {
        if !is_scheme_byte(*byte) {
            return false;
        }
    }
    true
}

/// Returns whether a byte is allowed in a scheme.
fn is_scheme_byte(byte: u8) -> bool
    ensures { result ≡ is_scheme_byte_of byte }
{
    byte.is_ascii_alphanumeric() || byte == b'+' || byte == b'-' || byte == b'.'
}

/// Returns whether a text is a path of a URI with the scheme `http` or `https` (RFC 9114, section
/// 4.3.1). `options`: the method is OPTIONS.
fn is_path(options: bool, text: &[u8]) -> bool
    ensures { result ≡ is_path_text options text.now }
{
    match text.first() {
        Some(b'/') => are_path_bytes(text),
        Some(_) => options && text == b"*".as_slice(),
        None => false,
    }
}

/// Returns whether all bytes are allowed in a path.
fn are_path_bytes(text: &[u8]) -> bool
    ensures { result ≡ list_all is_path_byte_of text.now }
{
    for byte in text {
        if !is_path_byte(*byte) {
            return false;
        }
    }
    true
}

/// Returns whether a byte is allowed in a path: no control character, space or number sign.
fn is_path_byte(byte: u8) -> bool
    ensures { result ≡ is_path_byte_of byte }
{
    byte > 32 && byte != 127 && byte != b'#'
}

/// Returns the value of `:authority`, or else that of `host`.
fn authority_of<'a>(list: &'a FieldList) -> Option<&'a [u8]>
    ensures { option_copied result
        ≡ or_host (authority_in list.now) (host_of list.now) }
{
    match list.first(b":authority") {
        Some(authority) => Some(authority),
        None => list.first(b"host"),
    }
}

/// Returns whether the request has no authority, or an empty one.
fn lacks_authority(list: &FieldList) -> bool
    ensures { result ≡ lacks_authority_in list.now }
{
    match list.first(b":authority") {
        Some(authority) if authority.is_empty() => return true,
        Some(_) => {}
        None => {
            if is_plain_connect(list) || !has_field(list, b"host") {
                return true;
            }
        }
    }
    match list.first(b"host") {
        Some(host) => host.is_empty(),
        None => false,
    }
}

/// Returns whether `:authority` and `host` differ, there are two `host` fields, or one is no
/// authority.
fn has_bad_authority(list: &FieldList) -> bool
    ensures { result ≡ has_bad_authority_in list.now }
{
    is_repeated(list, b"host")
        || is_invalid(list, b":authority")
        || is_invalid(list, b"host")
        || differ(list.first(b":authority"), list.first(b"host"))
}

/// Returns whether there is a field of this name whose value is no authority, or has no port where
/// one must be there.
fn is_invalid(list: &FieldList, name: &[u8]) -> bool
    ensures { result ≡ is_and_not (is_authority_text (is_plain_connect_request list.now))
        (field_value name.now list.now) }
{
    match list.first(name) {
        Some(text) => !is_authority(text, is_plain_connect(list)),
        None => false,
    }
}

/// Returns whether there are an authority and a host, and they differ.
fn differ(authority: Option<&[u8]>, host: Option<&[u8]>) -> bool
    ensures { result ≡ differ_in (option_copied authority.entry) (option_copied host.entry) }
{
    match (authority, host) {
        (Some(authority), Some(host)) => !equal_ignoring_case(authority, host),
        _ => false,
    }
}
