//! Texts of the errors of requests, responses and their header maps, and failed allocations.
use crate::same::assert_same;
use std::alloc::{AllocError, Global};
use std::fmt::Display;
use std::process::Abort;
use wtp_fields::session::{
    AddError, HeadersParseError, InsertError, ReservedHeader, UrlParseError,
};

/// Returns the text of an error, again if allocation failed.
fn text_of(alloc: Global, error: &impl Display) -> Result<String, AllocError> {
    match error.to_string(alloc) {
        Err(AllocError) => error.to_string(alloc),
        outcome => outcome,
    }
}

/// Asserts the text of an error.
fn assert_shown(rt: &impl Abort, alloc: Global, error: &impl Display, text: &str) {
    let came = text_of(alloc, error).expect(rt, "memory");
    assert_same(rt, came.as_str(), text, text);
}

/// Asserts the text of each error.
fn assert_texts<E: Display>(rt: &impl Abort, alloc: Global, rows: &[(E, &str)]) {
    for (error, text) in rows {
        assert_shown(rt, alloc, error, text);
    }
}

/// Errors in header maps, and their texts.
static ERRORS_OF_MAPS: [(HeadersParseError, &str); 11] = [
    (
        HeadersParseError::MissingMethod,
        "':method' field is missing",
    ),
    (
        HeadersParseError::MethodNotConnect,
        "':method' is not CONNECT",
    ),
    (
        HeadersParseError::MissingScheme,
        "':scheme' field is missing",
    ),
    (
        HeadersParseError::SchemeNotHttps,
        "':scheme' is not 'https'",
    ),
    (
        HeadersParseError::MissingProtocol,
        "':protocol' field is missing",
    ),
    (
        HeadersParseError::ProtocolNotWebTransport,
        "':protocol' is not 'webtransport'",
    ),
    (
        HeadersParseError::MissingAuthority,
        "':authority' field is missing",
    ),
    (HeadersParseError::MissingPath, "':path' field is missing"),
    (
        HeadersParseError::MissingStatusCode,
        "':status' field is missing",
    ),
    (
        HeadersParseError::InvalidStatusCode,
        "invalid HTTP status code",
    ),
    (HeadersParseError::Memory, "no memory"),
];

#[test]
fn printed_errors_of_maps_past_refused_memory(rt: HostRuntime) {
    assert_texts(&rt, rt.alloc(), &ERRORS_OF_MAPS);
}

/// Errors in URLs, and their texts.
static ERRORS_OF_URLS: [(UrlParseError, &str); 13] = [
    (UrlParseError::EmptyHost, "host is missing in the URL"),
    (
        UrlParseError::IdnaError,
        "invalid international domain name",
    ),
    (UrlParseError::InvalidPort, "invalid port number"),
    (UrlParseError::InvalidIpv4Address, "invalid IPv4 address"),
    (UrlParseError::InvalidIpv6Address, "invalid IPv6 address"),
    (
        UrlParseError::InvalidDomainCharacter,
        "invalid domain character",
    ),
    (
        UrlParseError::RelativeUrlWithoutBase,
        "relative URL without a base",
    ),
    (
        UrlParseError::RelativeUrlWithCannotBeABaseBase,
        "relative URL with a cannot-be-a-base base",
    ),
    (
        UrlParseError::SetHostOnCannotBeABaseUrl,
        "a cannot-be-a-base URL doesn’t have a host to set",
    ),
    (
        UrlParseError::Overflow,
        "URLs more than 4 GB are not supported",
    ),
    (UrlParseError::Unknown, "unknown error during URL parsing"),
    (UrlParseError::SchemeNotHttps, "URL scheme is not 'https'"),
    (UrlParseError::Memory, "no memory"),
];

#[test]
fn printed_errors_of_urls_past_refused_memory(rt: HostRuntime) {
    assert_texts(&rt, rt.alloc(), &ERRORS_OF_URLS);
}

/// Errors of inserting fields, and their texts.
static ERRORS_OF_INSERTS: [(InsertError, &str); 2] = [
    (
        InsertError::Reserved(ReservedHeader),
        "used reserved header",
    ),
    (InsertError::Memory, "no memory"),
];

/// Errors of adding fields, and their texts.
static ERRORS_OF_ADDS: [(AddError, &str); 2] = [
    (AddError::InvalidStatusCode, "invalid HTTP status code"),
    (AddError::Memory, "no memory"),
];

#[test]
fn printed_errors_of_fields_past_refused_memory(rt: HostRuntime) {
    assert_texts(&rt, rt.alloc(), &ERRORS_OF_INSERTS);
    assert_texts(&rt, rt.alloc(), &ERRORS_OF_ADDS);
}
