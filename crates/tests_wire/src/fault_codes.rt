//! The error codes for errors of frames, stream headers and capsules.
use crate::same::assert_same;
use wtp_core::bytes::IoReadError;
use wtp_core::error::ErrorCode;
use wtp_wire::capsule::{CapsuleError, TruncatedCapsule};
use wtp_wire::{frame, stream_header};

/// An error of reading a frame, its error code (RFC 9114, sections 7.1, 9 and 10.5; WebTransport
/// over HTTP/3, "Session IDs"), and the case.
static FRAMES: [(frame::IoReadError, Option<ErrorCode>, &str); 7] = [
    (
        frame::IoReadError::Parse(frame::ParseError::UnknownFrame),
        None,
        "an unknown frame",
    ),
    (
        frame::IoReadError::Parse(frame::ParseError::InvalidSessionId),
        Some(ErrorCode::Id),
        "no session",
    ),
    (
        frame::IoReadError::Parse(frame::ParseError::PayloadTooBig),
        Some(ErrorCode::ExcessiveLoad),
        "a payload that is too long",
    ),
    (
        frame::IoReadError::IO(IoReadError::UnexpectedFin),
        Some(ErrorCode::Frame),
        "an end inside",
    ),
    (
        frame::IoReadError::IO(IoReadError::ImmediateFin),
        None,
        "an end",
    ),
    (frame::IoReadError::IO(IoReadError::Reset), None, "a reset"),
    (
        frame::IoReadError::IO(IoReadError::NotConnected),
        None,
        "a lost connection",
    ),
];

/// An error of reading a header, its error code (RFC 9114, section 6.2; WebTransport over HTTP/3,
/// "Session IDs"), and the case.
static HEADERS: [(stream_header::IoReadError, Option<ErrorCode>, &str); 6] = [
    (
        stream_header::IoReadError::Parse(stream_header::ParseError::UnknownStream),
        Some(ErrorCode::StreamCreation),
        "an unknown stream",
    ),
    (
        stream_header::IoReadError::Parse(stream_header::ParseError::InvalidSessionId),
        Some(ErrorCode::Id),
        "no session",
    ),
    (
        stream_header::IoReadError::IO(IoReadError::UnexpectedFin),
        None,
        "an end inside",
    ),
    (
        stream_header::IoReadError::IO(IoReadError::ImmediateFin),
        None,
        "an end",
    ),
    (
        stream_header::IoReadError::IO(IoReadError::Reset),
        None,
        "a reset",
    ),
    (
        stream_header::IoReadError::IO(IoReadError::NotConnected),
        None,
        "a lost connection",
    ),
];

#[test]
fn faults_of_frames_have_codes(rt: HostRuntime) {
    for (fault, code, case) in &FRAMES {
        assert_same(&rt, fault.code(), *code, case);
    }
}

#[test]
fn faults_of_headers_have_codes(rt: HostRuntime) {
    for (fault, code, case) in &HEADERS {
        assert_same(&rt, fault.code(), *code, case);
    }
}

/// Errors of capsules: RFC 9297, sections 3.3 and 5.2; RFC 9114, section 4.1.2.
#[test]
fn faults_of_capsules_have_codes(rt: HostRuntime) {
    let code = CapsuleError::TooLong.code();
    assert_same(&rt, code, Some(ErrorCode::Datagram), "too long");
    assert_same(&rt, CapsuleError::Memory.code(), None, "no memory");
    let code = ErrorCode::from(TruncatedCapsule);
    assert_same(&rt, code, ErrorCode::Message, "cut");
}
