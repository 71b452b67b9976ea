//! Reading frames from a stream of each kind, so that one check covers all kinds.
use crate::answers::{Answer, PollAnswer, check_answer};
use std::process::Abort;
use wtransport_proto::bytes::{AsyncRead, BufferReader, Polled};
use wtransport_proto::error::ErrorCode;
use wtransport_proto::frame::{Frame, FrameReading};
use wtransport_proto::stream::ReadsFrames;
use wtransport_proto::stream::bilocal::StreamBiLocalH3;
use wtransport_proto::stream::biremote::StreamBiRemoteH3;
use wtransport_proto::stream::session::StreamSession;
use wtransport_proto::stream::uniremote::StreamUniRemoteH3;

/// The result of one read.
pub(crate) type Read<'a> = Result<Option<Frame<'a>>, ErrorCode>;

/// A reading state. If no frame may be read from it, each read returns a sentinel that matches no
/// row.
pub(crate) trait Reads: ReadsFrames {
    /// Reads the next frame from a slice by the state's own call.
    fn read_slice<'a>(&mut self, rest: &mut &'a [u8]) -> Read<'a>;
}

impl Reads for StreamBiRemoteH3 {
    fn read_slice<'a>(&mut self, rest: &mut &'a [u8]) -> Read<'a> {
        self.read_frame(rest)
    }
}

impl Reads for StreamBiLocalH3 {
    fn read_slice<'a>(&mut self, rest: &mut &'a [u8]) -> Read<'a> {
        self.read_frame(rest)
    }
}

impl Reads for StreamSession {
    fn read_slice<'a>(&mut self, rest: &mut &'a [u8]) -> Read<'a> {
        self.read_frame(rest)
    }
}

impl Reads for StreamUniRemoteH3 {
    fn read_slice<'a>(&mut self, rest: &mut &'a [u8]) -> Read<'a> {
        if !self.can_read() {
            return Err(ErrorCode::NoError);
        }
        self.read_frame(rest)
    }
}

/// Reads the next frame from a buffer.
pub(crate) fn read_buffer<'a, K: ReadsFrames>(
    stream: &mut K,
    reader: &mut BufferReader<'a>,
) -> Read<'a> {
    if !stream.can_read() {
        return Err(ErrorCode::NoError);
    }
    stream.read_frame_from_buffer(reader)
}

/// Polls for the next frame.
pub(crate) fn poll<K: ReadsFrames, S: AsyncRead>(
    stream: &mut K,
    reading: &mut FrameReading,
    source: &mut S,
) -> PollAnswer {
    if !stream.can_read() {
        return Polled::NoMemory;
    }
    stream.read_frame_async(reading, source)
}

/// Asserts the result of the next poll. If allocation for a payload failed, the poll is repeated.
pub(crate) fn check_poll<R: Abort, K: ReadsFrames, S: AsyncRead>(
    rt: &R,
    stream: &mut K,
    reading: &mut FrameReading,
    source: &mut S,
    answer: &Answer<'_>,
    place: (&str, usize),
) {
    let (word, turn) = place;
    let answered = match poll(stream, reading, source) {
        Polled::NoMemory => poll(stream, reading, source),
        answered => answered,
    };
    check_answer(rt, &answered, answer, word, turn);
}

/// Asserts the results of the next polls.
pub(crate) fn check_polls<R: Abort, K: ReadsFrames, S: AsyncRead>(
    rt: &R,
    stream: &mut K,
    reading: &mut FrameReading,
    source: &mut S,
    answers: &[Answer<'_>],
    word: &str,
) {
    for (place, answer) in answers.iter().enumerate() {
        check_poll(rt, stream, reading, source, answer, (word, place));
    }
}

/// The bytes of a source before its end, the results of the polls, and the case.
pub(crate) type PollRow = (&'static [u8], &'static [Answer<'static>], &'static str);

/// Asserts the results of polling the stream by a row, with a new reader.
pub(crate) fn check_source<R: Abort + AllocGlobal, K: ReadsFrames>(
    rt: &R,
    stream: &mut K,
    row: &(&[u8], &[Answer<'_>], &str),
) {
    let (mut bytes, answers, word) = *row;
    let mut reading = Frame::read_async(rt.alloc());
    check_polls(rt, stream, &mut reading, &mut bytes, answers, word);
}

/// Asserts the results of polling the stream by each row.
pub(crate) fn check_sources<R: Abort + AllocGlobal, K: ReadsFrames>(
    rt: &R,
    stream: &mut K,
    rows: &[PollRow],
) {
    for row in rows {
        check_source(rt, stream, row);
    }
}
