//! The error codes for errors in field sections and messages.
use crate::same::assert_same;
use wtp_core::error::ErrorCode;
use wtp_fields::huffman::HuffmanError;
use wtp_fields::qpack::DecodingError;
use wtp_fields::session::HeadersParseError;

/// An error in a field section, and its error code (RFC 9204, section 6).
static SECTIONS: [(DecodingError, Option<ErrorCode>); 6] = [
    (DecodingError::UnexpectedFin, Some(ErrorCode::Decompression)),
    (
        DecodingError::IntegerOverflow,
        Some(ErrorCode::Decompression),
    ),
    (DecodingError::InvalidString, Some(ErrorCode::Decompression)),
    (
        DecodingError::DynamicNotSupported,
        Some(ErrorCode::Decompression),
    ),
    (DecodingError::IndexNotfound, Some(ErrorCode::Decompression)),
    (DecodingError::Memory, None),
];

/// A Huffman error is an error of its field section (RFC 7541, section 5.2; RFC 9204, section
/// 4.1.2).
#[test]
fn faults_of_huffman_texts_have_codes(rt: HostRuntime) {
    let code = DecodingError::from(HuffmanError::Invalid).code();
    assert_same(&rt, code, Some(ErrorCode::Decompression), "invalid");
    let code = DecodingError::from(HuffmanError::Memory).code();
    assert_same(&rt, code, None, "no memory");
}

#[test]
fn faults_of_sections_have_codes(rt: HostRuntime) {
    for (fault, code) in &SECTIONS {
        assert_same(&rt, fault.code(), *code, fault);
    }
}

/// An error in a request or response, and its error code (RFC 9114, section 4.1.2).
static MESSAGES: [(HeadersParseError, Option<ErrorCode>); 11] = [
    (HeadersParseError::MissingMethod, Some(ErrorCode::Message)),
    (
        HeadersParseError::MethodNotConnect,
        Some(ErrorCode::Message),
    ),
    (HeadersParseError::MissingScheme, Some(ErrorCode::Message)),
    (HeadersParseError::SchemeNotHttps, Some(ErrorCode::Message)),
    (HeadersParseError::MissingProtocol, Some(ErrorCode::Message)),
    (
        HeadersParseError::ProtocolNotWebTransport,
        Some(ErrorCode::Message),
    ),
    (
        HeadersParseError::MissingAuthority,
        Some(ErrorCode::Message),
    ),
    (HeadersParseError::MissingPath, Some(ErrorCode::Message)),
    (
        HeadersParseError::MissingStatusCode,
        Some(ErrorCode::Message),
    ),
    (
        HeadersParseError::InvalidStatusCode,
        Some(ErrorCode::Message),
    ),
    (HeadersParseError::Memory, None),
];

#[test]
fn faults_of_messages_have_codes(rt: HostRuntime) {
    for (fault, code) in &MESSAGES {
        assert_same(&rt, fault.code(), *code, fault);
    }
}
