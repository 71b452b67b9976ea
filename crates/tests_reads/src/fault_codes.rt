//! The error codes for errors of streams and of exchanges.
use crate::same::assert_same;
use std::process::Abort;
use wtransport_proto::bytes::{IoReadError, IoWriteError};
use wtransport_proto::error::{ErrorCode, Refused};
use wtransport_proto::exchange::{ExchangeError, ReceiveError, SendError};
use wtransport_proto::frame::{FrameKind, GenerateError};
use wtransport_proto::stream;

/// Returns the error for the end of a source.
fn ended() -> ReceiveError {
    ReceiveError::Stream(stream::IoReadError::IO(IoReadError::ImmediateFin))
}

/// Returns the error for a violated rule of a stream.
fn broken(code: ErrorCode) -> ReceiveError {
    ReceiveError::Stream(stream::IoReadError::H3(code))
}

/// Returns the error for a rejected section.
fn refused(code: ErrorCode) -> ReceiveError {
    ReceiveError::Section(Refused::Code(code))
}

/// Asserts the error code of a receive error, and that the exchange reports the same code.
fn check<R: Abort>(rt: &R, error: ReceiveError, code: Option<ErrorCode>, case: &str) {
    assert_same(rt, error.code(), code, case);
    assert_same(rt, ExchangeError::Receive(error).code(), code, case);
}

/// RFC 9114, sections 4.1 and 7.1; RFC 9204, section 6.
#[test]
fn errors_of_exchanges_have_codes(rt: HostRuntime) {
    check(&rt, ended(), None, "an end");
    let code = ErrorCode::Frame;
    check(&rt, broken(code), Some(code), "an end inside a frame");
    let code = ErrorCode::Decompression;
    check(&rt, refused(code), Some(code), "an invalid section");
    let memory = ReceiveError::Section(Refused::Memory);
    check(&rt, memory, None, "no memory for a map");
    let data = ReceiveError::OtherKind(FrameKind::Data);
    let code = ErrorCode::FrameUnexpected;
    check(&rt, data, Some(code), "DATA before HEADERS");
    let opening = ReceiveError::OtherKind(FrameKind::WebTransport);
    check(&rt, opening, None, "a stream of a session");
    check(&rt, ReceiveError::Waiting, None, "not ready");
    check(&rt, ReceiveError::Memory, None, "no memory");
}

#[test]
fn exchanges_that_end_before_have_no_codes(rt: HostRuntime) {
    let long = ExchangeError::Frame(GenerateError::PayloadTooLong);
    assert_same(&rt, long.code(), None, "too long");
    let stopped = ExchangeError::Send(SendError::IO(IoWriteError::Stopped));
    assert_same(&rt, stopped.code(), None, "stopped");
}

#[test]
fn faults_of_streams_have_codes(rt: HostRuntime) {
    let code = Some(ErrorCode::Id);
    assert_same(
        &rt,
        stream::IoReadError::H3(ErrorCode::Id).code(),
        code,
        "a rule",
    );
    let reset = stream::IoReadError::IO(IoReadError::Reset);
    assert_same(&rt, reset.code(), None, "a source");
}
