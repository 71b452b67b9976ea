//! Error codes by number, their scopes, and application error codes.
use crate::same::assert_same;
use std::process::Abort;
use wtp_core::error::{ErrorCode, ErrorScope, Refused, UnknownErrorCode, application_codes};
use wtp_core::ids::{InvalidQStreamId, InvalidSessionId, InvalidStatusCode};
use wtp_core::varint::{VarInt, VarIntBoundsExceeded};

/// A number, its error code (RFC 9114, section 8.1; RFC 9297, section 5.2; RFC 9204, section 6;
/// WebTransport over HTTP/3), and the case.
type NumberRow = (u64, Option<ErrorCode>, &'static str);

/// Numbers of error codes, and other numbers.
static NUMBERS: [NumberRow; 29] = [
    (0x33, Some(ErrorCode::Datagram), "H3_DATAGRAM_ERROR"),
    (0x100, Some(ErrorCode::NoError), "H3_NO_ERROR"),
    (
        0x103,
        Some(ErrorCode::StreamCreation),
        "H3_STREAM_CREATION_ERROR",
    ),
    (
        0x104,
        Some(ErrorCode::ClosedCriticalStream),
        "H3_CLOSED_CRITICAL_STREAM",
    ),
    (
        0x105,
        Some(ErrorCode::FrameUnexpected),
        "H3_FRAME_UNEXPECTED",
    ),
    (0x106, Some(ErrorCode::Frame), "H3_FRAME_ERROR"),
    (0x107, Some(ErrorCode::ExcessiveLoad), "H3_EXCESSIVE_LOAD"),
    (0x108, Some(ErrorCode::Id), "H3_ID_ERROR"),
    (0x109, Some(ErrorCode::Settings), "H3_SETTINGS_ERROR"),
    (
        0x10a,
        Some(ErrorCode::MissingSettings),
        "H3_MISSING_SETTINGS",
    ),
    (
        0x10b,
        Some(ErrorCode::RequestRejected),
        "H3_REQUEST_REJECTED",
    ),
    (0x10e, Some(ErrorCode::Message), "H3_MESSAGE_ERROR"),
    (
        0x200,
        Some(ErrorCode::Decompression),
        "QPACK_DECOMPRESSION_FAILED",
    ),
    (
        0x3994_bd84,
        Some(ErrorCode::BufferedStreamRejected),
        "WEBTRANSPORT_BUFFERED_STREAM_REJECTED",
    ),
    (
        0x170d_7b68,
        Some(ErrorCode::SessionGone),
        "WEBTRANSPORT_SESSION_GONE",
    ),
    (0, None, "0"),
    (0x21, None, "the first reserved number"),
    (0x32, None, "below the first code"),
    (0x34, None, "above the first code"),
    (0xff, None, "below H3_NO_ERROR"),
    (0x101, None, "H3_GENERAL_PROTOCOL_ERROR"),
    (0x102, None, "H3_INTERNAL_ERROR"),
    (0x10c, None, "H3_REQUEST_CANCELLED"),
    (0x10d, None, "H3_REQUEST_INCOMPLETE"),
    (0x10f, None, "H3_CONNECT_ERROR"),
    (0x110, None, "H3_VERSION_FALLBACK"),
    (0x201, None, "QPACK_ENCODER_STREAM_ERROR"),
    (0x52e4_a40f_a8db, None, "an application's error code"),
    (0x3fff_ffff_ffff_ffff, None, "the largest number"),
];

/// Returns the error code with this number.
fn code_of(number: u64) -> Result<Option<ErrorCode>, VarIntBoundsExceeded> {
    Ok(ErrorCode::try_from(VarInt::try_from_u64(number)?).ok())
}

#[test]
fn numbers_are_those_of_codes(rt: HostRuntime) {
    for (number, code, case) in &NUMBERS {
        assert_same(&rt, code_of(*number), Ok(*code), case);
    }
}

/// An error code and its scope (RFC 9114, section 8).
type ScopeRow = (ErrorCode, ErrorScope, &'static str);

/// All error codes.
static SCOPES: [ScopeRow; 15] = [
    (ErrorCode::Datagram, ErrorScope::Either, "Datagram"),
    (ErrorCode::NoError, ErrorScope::Either, "NoError"),
    (
        ErrorCode::StreamCreation,
        ErrorScope::Either,
        "StreamCreation",
    ),
    (
        ErrorCode::ClosedCriticalStream,
        ErrorScope::Connection,
        "ClosedCriticalStream",
    ),
    (
        ErrorCode::FrameUnexpected,
        ErrorScope::Connection,
        "FrameUnexpected",
    ),
    (ErrorCode::Frame, ErrorScope::Connection, "Frame"),
    (
        ErrorCode::ExcessiveLoad,
        ErrorScope::Connection,
        "ExcessiveLoad",
    ),
    (ErrorCode::Id, ErrorScope::Connection, "Id"),
    (ErrorCode::Settings, ErrorScope::Connection, "Settings"),
    (
        ErrorCode::MissingSettings,
        ErrorScope::Connection,
        "MissingSettings",
    ),
    (
        ErrorCode::RequestRejected,
        ErrorScope::Stream,
        "RequestRejected",
    ),
    (ErrorCode::Message, ErrorScope::Stream, "Message"),
    (
        ErrorCode::Decompression,
        ErrorScope::Connection,
        "Decompression",
    ),
    (
        ErrorCode::BufferedStreamRejected,
        ErrorScope::Stream,
        "BufferedStreamRejected",
    ),
    (ErrorCode::SessionGone, ErrorScope::Stream, "SessionGone"),
];

#[test]
fn codes_end_a_stream_or_the_connection(rt: HostRuntime) {
    for (code, scope, case) in &SCOPES {
        assert_same(&rt, code.scope(), *scope, case);
    }
}

#[test]
fn errors_have_their_codes(rt: HostRuntime) {
    assert_same(
        &rt,
        Refused::Code(ErrorCode::Settings).code(),
        Some(ErrorCode::Settings),
        "a code",
    );
    assert_same(&rt, Refused::Memory.code(), None, "no memory");
    assert_same(
        &rt,
        ErrorCode::from(InvalidSessionId),
        ErrorCode::Id,
        "a session ID",
    );
    assert_same(
        &rt,
        ErrorCode::from(InvalidQStreamId),
        ErrorCode::Datagram,
        "a quarter stream ID",
    );
    assert_same(
        &rt,
        ErrorCode::from(InvalidStatusCode),
        ErrorCode::Message,
        "a status code",
    );
    assert_same(
        &rt,
        ErrorCode::from(UnknownErrorCode),
        ErrorCode::NoError,
        "an unknown error code",
    );
}

/// An application error code and its HTTP/3 error code, which is 0x52e4a40fa8db + code +
/// floor(code / 30).
static APPLICATION: [(u32, u64); 9] = [
    (0, 0x52e4_a40f_a8db),
    (1, 0x52e4_a40f_a8dc),
    (29, 0x52e4_a40f_a8f8),
    (30, 0x52e4_a40f_a8fa),
    (59, 0x52e4_a40f_a917),
    (60, 0x52e4_a40f_a919),
    (255, 0x52e4_a40f_a9e2),
    (0x7fff_ffff, 0x52e5_2853_ed1e),
    (0xffff_ffff, 0x52e5_ac98_3162),
];

/// Asserts the conversion of an application error code in both directions.
fn check_application<R: Abort>(rt: &R, code: u32, wanted: u64) {
    let number = application_codes::to_http3(code);
    assert_same(rt, number.into_inner(), wanted, code);
    assert_same(
        rt,
        application_codes::from_http3(number).ok(),
        Some(code),
        code,
    );
}

#[test]
fn applications_codes_are_numbers_of_http3(rt: HostRuntime) {
    for (code, number) in &APPLICATION {
        check_application(&rt, *code, *number);
    }
}

/// A number that is not the HTTP/3 code of an application error code, and the reason.
static OTHERS: [(u64, &str); 7] = [
    (0, "0"),
    (0x100, "H3_NO_ERROR"),
    (0x52e4_a40f_a8da, "below the range"),
    (0x52e4_a40f_a8f9, "the first reserved number of the range"),
    (0x52e5_ac98_3152, "the last reserved number of the range"),
    (0x52e5_ac98_3163, "above the range"),
    (0x3fff_ffff_ffff_ffff, "the largest number"),
];

/// Returns the application error code for this HTTP/3 error code.
fn application_of(number: u64) -> Result<Option<u32>, VarIntBoundsExceeded> {
    Ok(application_codes::from_http3(VarInt::try_from_u64(number)?).ok())
}

#[test]
fn other_numbers_are_not_applications(rt: HostRuntime) {
    for (number, case) in &OTHERS {
        assert_same(&rt, application_of(*number), Ok(None), case);
    }
}
