//! Results of polls that read frames, in a form that can be compared.
use crate::polled::readings::{NewReading, Reading};
use crate::same::assert_same;
use std::alloc::Global;
use std::fmt::Display;
use std::process::Abort;
use wtp_core::bytes;
use wtp_core::bytes::{AsyncRead, Polled};
use wtp_wire::frame::{Frame, FrameOwned, FrameReading, IoReadError, ParseError};

/// The type, session ID and payload of a frame.
pub(crate) type Parts<'a> = (u64, Option<u64>, &'a [u8]);

/// The result of a poll.
pub(crate) type Answer<'a> = Polled<Result<Parts<'a>, &'a IoReadError>>;

/// Polls a reader once.
pub(crate) fn polled<S: AsyncRead>(
    reading: &mut FrameReading,
    source: &mut S,
) -> Polled<Result<FrameOwned, IoReadError>> {
    reading.poll(source)
}

pub(crate) const UNKNOWN: Answer<'static> = Polled::Ready(Err(&IoReadError::Parse(
    ParseError::UnknownFrame,
)));

pub(crate) const NO_SESSION: Answer<'static> = Polled::Ready(Err(&IoReadError::Parse(
    ParseError::InvalidSessionId,
)));

pub(crate) const TOO_BIG: Answer<'static> = Polled::Ready(Err(&IoReadError::Parse(
    ParseError::PayloadTooBig,
)));

pub(crate) const IMMEDIATE_FIN: Answer<'static> = Polled::Ready(Err(&IoReadError::IO(
    bytes::IoReadError::ImmediateFin,
)));

pub(crate) const UNEXPECTED_FIN: Answer<'static> = Polled::Ready(Err(&IoReadError::IO(
    bytes::IoReadError::UnexpectedFin,
)));

pub(crate) const RESET: Answer<'static> = Polled::Ready(Err(&IoReadError::IO(
    bytes::IoReadError::Reset,
)));

pub(crate) const NOT_CONNECTED: Answer<'static> = Polled::Ready(Err(&IoReadError::IO(
    bytes::IoReadError::NotConnected,
)));

pub(crate) const EMPTY_DATA: Answer<'static> = Polled::Ready(Ok((0x00, None, b"")));

pub(crate) const ABC_DATA: Answer<'static> = Polled::Ready(Ok((0x00, None, b"abc")));

pub(crate) const DATA: Answer<'static> = Polled::Ready(Ok((0x00, None, b"a")));

/// Returns the type, session ID and payload of a frame.
fn parts(frame: &FrameOwned) -> Parts<'_> {
    let session = match frame.session_id() {
        Some(session) => Some(session.into_u64()),
        None => None,
    };
    (frame.kind().id().into_inner(), session, frame.payload())
}

/// Returns the result of a poll by the parts of the frame.
pub(crate) fn seen(answer: &Polled<Result<FrameOwned, IoReadError>>) -> Answer<'_> {
    match answer {
        Polled::Ready(Ok(frame)) => Polled::Ready(Ok(parts(frame))),
        Polled::Ready(Err(error)) => Polled::Ready(Err(error)),
        Polled::Pending => Polled::Pending,
        Polled::Again => Polled::Again,
        Polled::NoMemory => Polled::NoMemory,
    }
}

impl Reading for FrameReading {
    type Ready = Result<Parts<'static>, &'static IoReadError>;

    fn stopped(stop: bytes::IoReadError) -> Answer<'static> {
        match stop {
            bytes::IoReadError::ImmediateFin => IMMEDIATE_FIN,
            bytes::IoReadError::UnexpectedFin => UNEXPECTED_FIN,
            bytes::IoReadError::Reset => RESET,
            bytes::IoReadError::NotConnected => NOT_CONNECTED,
        }
    }

    fn check<R: Abort, S: AsyncRead, N: Display + Drop>(
        &mut self,
        rt: &R,
        source: &mut S,
        wanted: &Answer<'static>,
        row: &[u8],
        case: N,
    ) {
        let answer = polled(self, source);
        assert_same(rt, (row, &seen(&answer)), (row, wanted), case);
    }
}

impl NewReading for FrameReading {
    fn new_reading(alloc: Global) -> Self {
        Frame::read_async(alloc)
    }
}
