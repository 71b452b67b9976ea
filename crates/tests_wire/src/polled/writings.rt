//! Checks for every polled writer, with vectors and with sinks that are not ready or stop.
use crate::polled::readings::assert_same_of;
use crate::same::assert_same;
use std::fmt::Display;
use std::process::Abort;
use test_io::{BYTE_BY_BYTE, ScriptedSink, stops_after};
use wtp_core::bytes::{AsyncWrite, IoWriteError, Polled, PutBuffer, PutVarint};
use wtp_wire::frame::FrameWriting;
use wtp_wire::stream_header::HeaderWriting;

/// The result of a poll.
pub(crate) type Written = Polled<Result<(), IoWriteError>>;

/// Everything is written.
pub(crate) const DONE: Written = Polled::Ready(Ok(()));

/// A writer of a number, a buffer, a frame or a header.
pub(crate) trait Writing {
    /// Polls once.
    fn write_on<W: AsyncWrite>(&mut self, sink: &mut W) -> Written;
}

impl Writing for PutVarint {
    fn write_on<W: AsyncWrite>(&mut self, sink: &mut W) -> Written {
        self.poll(sink)
    }
}

impl Writing for PutBuffer<'_> {
    fn write_on<W: AsyncWrite>(&mut self, sink: &mut W) -> Written {
        self.poll(sink)
    }
}

impl Writing for FrameWriting<'_> {
    fn write_on<W: AsyncWrite>(&mut self, sink: &mut W) -> Written {
        self.poll(sink)
    }
}

impl Writing for HeaderWriting {
    fn write_on<W: AsyncWrite>(&mut self, sink: &mut W) -> Written {
        self.poll(sink)
    }
}

/// Asserts the result of one poll.
fn check_poll<R: Abort, K: Writing, W: AsyncWrite, S: Display + Drop>(
    rt: &R,
    writing: &mut K,
    sink: &mut W,
    row: &[u8],
    wanted: &Written,
    case: S,
) {
    let came = writing.write_on(sink);
    assert_same_of(rt, row, &came, wanted, case);
}

/// Asserts the result of one poll, and the number of bytes that the sink has then accepted.
pub(crate) fn check_taken<R: Abort, K: Writing>(
    rt: &R,
    writing: &mut K,
    sink: &mut ScriptedSink<'_>,
    (bytes, sent): (&[u8], usize),
    wanted: &Written,
) {
    check_poll(rt, writing, sink, bytes, wanted, sent);
    assert_same(rt, Some(sink.output()), bytes.get(..sent), sent);
}

/// Asserts that a new or interrupted writer writes these bytes into a vector, and polls it twice.
fn check_whole<R: Abort + AllocGlobal, K: Writing>(rt: &R, writing: &mut K, bytes: &[u8]) {
    let mut vector = Vec::new(rt.alloc());
    check_poll(rt, writing, &mut vector, bytes, &DONE, "whole");
    check_poll(rt, writing, &mut vector, bytes, &DONE, "finished");
    assert_same(rt, vector.as_slice(), bytes, "whole");
}

/// Asserts that a writer writes these bytes to a sink that accepts one byte per poll.
fn check_slow<R: Abort + AllocGlobal, K: Writing>(rt: &R, writing: &mut K, bytes: &[u8]) {
    let mut sink = ScriptedSink::new(rt.alloc(), BYTE_BY_BYTE.as_flattened());
    for at in 0..bytes.len() {
        check_taken(rt, writing, &mut sink, (bytes, at), &Polled::Pending);
    }
    check_taken(rt, writing, &mut sink, (bytes, bytes.len()), &DONE);
}

/// Asserts that one writer writes into a vector, and another to a sink that accepts one byte per
/// poll.
pub(crate) fn check_written<R: Abort + AllocGlobal, K: Writing>(
    rt: &R,
    whole: &mut K,
    slow: &mut K,
    bytes: &[u8],
) {
    check_whole(rt, whole, bytes);
    check_slow(rt, slow, bytes);
}

/// The sink stopped.
pub(crate) const STOPPED: Written = Polled::Ready(Err(IoWriteError::Stopped));

/// The connection is lost.
const LOST: Written = Polled::Ready(Err(IoWriteError::NotConnected));

/// Asserts the results of a sink that accepts a number of bytes, one per call, then stops, and is
/// then disconnected. Then asserts that the rest is written into a vector.
pub(crate) fn check_stopped<R: Abort + AllocGlobal, K: Writing>(
    rt: &R,
    writing: &mut K,
    bytes: &[u8],
    sent: usize,
) {
    let mut sink = ScriptedSink::new(rt.alloc(), stops_after(sent));
    check_taken(rt, writing, &mut sink, (bytes, sent), &STOPPED);
    check_taken(rt, writing, &mut sink, (bytes, sent), &LOST);
    check_whole(rt, writing, bytes.get(sent..).expect(rt, "the rest"));
}

/// Asserts that a failed allocation left nothing or the frame header.
fn check_sent<R: Abort>(rt: &R, sent: &[u8], head: &[u8]) {
    assert!(rt; sent.is_empty() || sent == head);
}

/// Polls once with a vector, and again if allocation failed.
fn write_again<R: Abort, K: Writing>(
    rt: &R,
    writing: &mut K,
    vector: &mut Vec<u8>,
    head: &[u8],
) -> Written {
    match writing.write_on(vector) {
        Polled::NoMemory => {
            check_sent(rt, vector.as_slice(), head);
            writing.write_on(vector)
        }
        answer => answer,
    }
}

/// Asserts that a writer writes into a vector, polled again if allocation failed before or after
/// the header.
pub(crate) fn check_refused<R: Abort + AllocGlobal, K: Writing>(
    rt: &R,
    writing: &mut K,
    head: &[u8],
    rest: &[u8],
) {
    let mut vector = Vec::new(rt.alloc());
    let answer = write_again(rt, writing, &mut vector, head);
    let written = vector.as_slice().split_at_checked(head.len());
    let wanted = (DONE, Some((head, rest)));
    assert_same(rt, (answer, written), wanted, "written: the head, the rest");
}
