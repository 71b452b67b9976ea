//! Expected results of polls of streams.
use crate::same::assert_same;
use std::alloc::Global;
use std::process::Abort;
use test_io::End;
use wtransport_proto::bytes::{IoReadError as Fault, Polled};
use wtransport_proto::error::ErrorCode;
use wtransport_proto::frame::{Frame, FrameOwned};
use wtransport_proto::stream::IoReadError;

/// The result of one poll.
pub(crate) type PollAnswer = Polled<Result<FrameOwned, IoReadError>>;

/// The expected result of one poll: a frame by its type and payload, or another result.
#[derive(Drop)]
pub(crate) enum Answer<'a> {
    Frame(u64, &'a [u8]),
    Fault(IoReadError),
    Pending,
    Again,
}

/// The stream ends after a complete frame.
pub(crate) const FIN: Answer<'static> = Answer::Fault(IoReadError::IO(Fault::ImmediateFin));

/// The stream ends inside a frame, or a frame arrives too late.
pub(crate) const CUT: Answer<'static> = Answer::Fault(IoReadError::H3(ErrorCode::Frame));

/// All endings of a source.
pub(crate) static ENDS: [End; 3] = End::ALL;

/// Returns these bytes, padded with zeros to a length of `len`.
pub(crate) fn pad<R: Abort>(rt: &R, alloc: Global, front: &[u8], len: usize) -> Vec<u8> {
    let mut bytes = Vec::from_slice(alloc, front).expect(rt, "memory");
    bytes.resize(len, 0).expect(rt, "memory");
    bytes
}

/// The result or expected result of a poll, in a form that can be compared.
type AnswerValue<'a> = Polled<Result<(u64, &'a [u8]), &'a IoReadError>>;

/// Returns the result of a poll in this form.
fn answer_of(answered: &PollAnswer) -> AnswerValue<'_> {
    match answered {
        Polled::Ready(Ok(frame)) => Polled::Ready(Ok(number_and_payload(frame))),
        Polled::Ready(Err(fault)) => Polled::Ready(Err(fault)),
        Polled::Pending => Polled::Pending,
        Polled::Again => Polled::Again,
        Polled::NoMemory => Polled::NoMemory,
    }
}

/// Returns the expected result of a poll in this form.
fn wanted_of<'a>(answer: &'a Answer<'_>) -> AnswerValue<'a> {
    match answer {
        Answer::Frame(number, payload) => Polled::Ready(Ok((*number, payload))),
        Answer::Fault(fault) => Polled::Ready(Err(fault)),
        Answer::Pending => Polled::Pending,
        Answer::Again => Polled::Again,
    }
}

/// Asserts the result of a poll. A failure message gives the case and the position in
/// the row.
pub(crate) fn check_answer<R: Abort>(
    rt: &R,
    answered: &PollAnswer,
    answer: &Answer<'_>,
    word: &str,
    place: usize,
) {
    assert_same(
        rt,
        (place, answer_of(answered)),
        (place, wanted_of(answer)),
        word,
    );
}

/// Returns the type and payload of a frame.
pub(crate) fn number_and_payload<'a>(frame: &'a Frame<'_>) -> (u64, &'a [u8]) {
    (frame.kind().id().into_inner(), frame.payload())
}
