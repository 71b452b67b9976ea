//! Frames read poll by poll.
use crate::polled::bytes::check_printed;
use crate::polled::frame_answers::{
    ABC_DATA, Answer, DATA, EMPTY_DATA, IMMEDIATE_FIN, NO_SESSION, NOT_CONNECTED, RESET, TOO_BIG,
    UNEXPECTED_FIN, UNKNOWN, polled, seen,
};
use crate::polled::readings::{
    ENDS, Reading, check_answers, check_each, check_fronts, check_pending, check_polls, check_read,
    check_tail,
};
use crate::same::assert_same;
use std::process::Abort;
use test_io::{End, OneByteSource};
use wtp_core::bytes;
use wtp_core::bytes::{Polled, ReadStep};
use wtp_wire::frame::{FrameOwned, FrameReading, IoReadError, ParseError};

/// A SETTINGS frame: a table of 2 bytes, one blocked stream, datagrams, WebTransport, and three
/// sessions.
pub(crate) const SETTINGS: &[u8; 22] = &[
    0x04, 0x14, 0x01, 0x02, 0x07, 0x01, 0x33, 0x01, 0xab, 0x60, 0x37, 0x42, 0x01, 0xc0, 0x00, 0x00,
    0x00, 0xc6, 0x71, 0x70, 0x6a, 0x03,
];

/// The payload of `SETTINGS`.
pub(crate) const TABLE: &[u8; 20] = &[
    0x01, 0x02, 0x07, 0x01, 0x33, 0x01, 0xab, 0x60, 0x37, 0x42, 0x01, 0xc0, 0x00, 0x00, 0x00, 0xc6,
    0x71, 0x70, 0x6a, 0x03,
];

/// A HEADERS frame: `key1` is `value1`.
pub(crate) const HEADERS: &[u8; 14] = &[
    0x01, 0x0c, 0x00, 0x00, 0x2b, 0xea, 0x5f, 0x41, 0x85, 0xee, 0x3a, 0x2d, 0x28, 0x7f,
];

/// The payload of `HEADERS`.
pub(crate) const FIELDS: &[u8; 12] = &[
    0x00, 0x00, 0x2b, 0xea, 0x5f, 0x41, 0x85, 0xee, 0x3a, 0x2d, 0x28, 0x7f,
];

/// The frame of session 0.
pub(crate) const SESSION: &[u8; 3] = &[0x40, 0x41, 0x00];

/// The bytes of frames, and the results of reading them.
static FRAMES: [(&[u8], Answer<'static>); 5] = [
    (SETTINGS, Polled::Ready(Ok((0x04, None, TABLE)))),
    (HEADERS, Polled::Ready(Ok((0x01, None, FIELDS)))),
    (SESSION, Polled::Ready(Ok((0x41, Some(0), b"")))),
    (
        b"\x21\x07Payload",
        Polled::Ready(Ok((0x21, None, b"Payload"))),
    ),
    (b"\xc0\0\0\0\0\0\0\0\xc0\0\0\0\0\0\0\x01a", DATA),
];

#[test]
fn frames_are_read(rt: HostRuntime) {
    for (bytes, answer) in &FRAMES {
        check_read::<_, FrameReading>(&rt, bytes, answer);
    }
}

/// Invalid frames and their errors: an unknown type, an invalid session ID, a length of 4097, and
/// the largest length.
static FAULTS: [(&[u8], Answer<'static>); 4] = [
    (b"\x80\x42\x42\x42\x16This is a test payload", UNKNOWN),
    (&[0x40, 0x41, 0x01], NO_SESSION),
    (&[0x00, 0x50, 0x01], TOO_BIG),
    (
        &[0x00, 0xff, 0xff, 0xff, 0xff, 0xff, 0xff, 0xff, 0xff],
        TOO_BIG,
    ),
];

#[test]
fn faults_are_named(rt: HostRuntime) {
    for (bytes, fault) in &FAULTS {
        check_read::<_, FrameReading>(&rt, bytes, fault);
    }
}

/// Frames that are truncated after each byte.
static CUT: [&[u8]; 4] = [
    b"\x00\x16This is a test payload",
    SESSION,
    &[0x0a, 0x05, 0x61],
    &[0x0a, 0xff, 0xff, 0xff, 0xff, 0xff, 0xff, 0xff, 0xff, 0x00],
];

#[test]
fn cut_frames_end(rt: HostRuntime) {
    for frame in &CUT {
        check_fronts::<_, FrameReading>(&rt, frame);
    }
}

/// Bytes with unknown frames, and the results of the polls.
static PASSED: [(&[u8], &[Answer<'static>]); 4] = [
    (&[0x00], &[UNEXPECTED_FIN]),
    (&[0x0a], &[UNEXPECTED_FIN]),
    (
        &[0x0a, 0x00, 0x00, 0x01, 0x61],
        &[UNKNOWN, DATA, IMMEDIATE_FIN],
    ),
    (
        &[0x0a, 0xff, 0xff, 0xff, 0xff, 0xff, 0xff, 0xff, 0xff],
        &[UNEXPECTED_FIN, UNEXPECTED_FIN],
    ),
];

#[test]
fn unknown_frames_are_passed_over_whole(rt: HostRuntime) {
    for (bytes, each) in &PASSED {
        let mut source = *bytes;
        check_polls::<_, FrameReading, _>(&rt, &mut source, each, bytes);
    }
}

static ZEROS: [u8; 8192] = [0; 8192];

/// An unknown frame, and the results of polling it.
struct LongRow {
    /// The encoded length.
    length: &'static [u8],
    /// The number of zeros after it.
    zeros: usize,
    /// The bytes after those.
    after: &'static [u8],
    answers: &'static [Answer<'static>],
}

/// Asserts the results of polling an unknown frame, the bytes after it, and an end.
fn check_long<R: Abort + AllocGlobal>(rt: &R, row: &LongRow) {
    let zeros = ZEROS.get(..row.zeros).unwrap_or(&[]);
    let parts = [[0x0a].as_slice(), row.length, zeros, row.after];
    let bytes = parts.concat(rt.alloc()).expect(rt, "memory");
    let mut source = bytes.as_slice();
    check_polls::<_, FrameReading, _>(rt, &mut source, row.answers, row.length);
}

/// Unknown frames of 4096 bytes, of one more, of twice as many, and a truncated one.
static LONG: [LongRow; 4] = [
    LongRow {
        length: &[0x50, 0x00],
        zeros: 4096,
        after: &[0x00, 0x00],
        answers: &[UNKNOWN, EMPTY_DATA],
    },
    LongRow {
        length: &[0x50, 0x01],
        zeros: 4097,
        after: &[0x00, 0x00],
        answers: &[Polled::Again, UNKNOWN, EMPTY_DATA],
    },
    LongRow {
        length: &[0x60, 0x00],
        zeros: 8192,
        after: &[0x00, 0x00],
        answers: &[Polled::Again, UNKNOWN, EMPTY_DATA, IMMEDIATE_FIN],
    },
    LongRow {
        length: &[0x50, 0x01],
        zeros: 4096,
        after: &[],
        answers: &[Polled::Again, UNEXPECTED_FIN, UNEXPECTED_FIN],
    },
];

#[test]
fn long_unknown_frames_take_more_polls(rt: HostRuntime) {
    for row in &LONG {
        check_long(&rt, row);
    }
}

/// The bytes of two sources, and the results of polling them.
struct StepsRow {
    bytes: &'static [u8],
    /// The steps in which the bytes arrive.
    steps: &'static [ReadStep],
    answers: &'static [Answer<'static>],
    /// The bytes of the second source, which is a slice.
    second: &'static [u8],
    second_answers: &'static [Answer<'static>],
}

/// Asserts the results of a new reader for the bytes of a row, which arrive in its steps, and
/// then for those of the second source.
fn check_steps<R: Abort + AllocGlobal>(rt: &R, row: &StepsRow) {
    let mut reading = FrameReading::new(rt.alloc());
    check_answers(rt, &mut reading, (row.bytes, row.steps), row.answers);
    let mut source = row.second;
    let answers = row.second_answers;
    check_each(rt, &mut reading, &mut source, answers, row.second);
}

/// Rows with an unknown frame of five bytes, three of which arrive first.
static DUE: [StepsRow; 2] = [
    StepsRow {
        bytes: &[0x0a, 0x05, 0x61, 0x62, 0x63, 0x64, 0x65, 0x00, 0x00],
        steps: &[ReadStep::Bytes(3), ReadStep::NotReady],
        answers: &[Polled::Pending, UNKNOWN, EMPTY_DATA, IMMEDIATE_FIN],
        second: &[],
        second_answers: &[],
    },
    StepsRow {
        bytes: &[0x0a, 0x05, 0x61, 0x62, 0x63, 0x64, 0x65, 0x00, 0x00],
        steps: &[ReadStep::Bytes(3), ReadStep::Reset],
        answers: &[RESET],
        second: &[0x62, 0x63, 0x64, 0x65, 0x00, 0x00],
        second_answers: &[UNKNOWN, EMPTY_DATA],
    },
];

#[test]
fn what_is_due_stays_due(rt: HostRuntime) {
    for row in &DUE {
        check_steps(&rt, row);
    }
}

/// A frame whose first byte comes from one source and whose other bytes come from another.
const TWO_SOURCES: StepsRow = StepsRow {
    bytes: &[0x00],
    steps: &[ReadStep::Bytes(1), ReadStep::NotReady],
    answers: &[Polled::Pending],
    second: &[0x01, 0x61],
    second_answers: &[DATA],
};

#[test]
fn a_frame_is_read_on_over_a_second_source(rt: HostRuntime) {
    check_steps(&rt, &TWO_SOURCES);
}

/// A frame with an interruption before each byte.
const STOPS: StepsRow = StepsRow {
    bytes: &[0x00, 0x01, 0x61],
    steps: &[
        ReadStep::Reset,
        ReadStep::Bytes(1),
        ReadStep::NotConnected,
        ReadStep::Bytes(1),
        ReadStep::Reset,
        ReadStep::Bytes(1),
    ],
    answers: &[RESET, NOT_CONNECTED, RESET, DATA],
    second: &[],
    second_answers: &[],
};

#[test]
fn a_frame_is_read_past_stops(rt: HostRuntime) {
    check_steps(&rt, &STOPS);
}

/// An exercise frame and a session frame.
const TWO_FRAMES: &[u8; 12] = b"\x21\x07Payload\x40\x41\x00";

/// The size of each of the two frames, and the result of reading it.
static TWO: [(usize, Answer<'static>); 2] = [
    (9, Polled::Ready(Ok((0x21, None, b"Payload")))),
    (3, Polled::Ready(Ok((0x41, Some(0), b"")))),
];

/// Asserts those of the two frames that the bytes contain. Returns the number of bytes left.
fn check_held<R: Abort>(
    rt: &R,
    reading: &mut FrameReading,
    source: &mut OneByteSource<'_>,
    row: &[u8],
) -> usize {
    let mut held = row.len();
    for (size, frame) in &TWO {
        if held < *size {
            return held;
        }
        check_pending(rt, reading, source, row, *size);
        reading.check(rt, source, frame, row, *size);
        held = held.saturating_sub(*size);
    }
    held
}

/// Asserts the results for the first bytes of the two frames, one by one up to this end.
fn check_stop<R: Abort + AllocGlobal>(rt: &R, front: &[u8], end: End) {
    let mut source = OneByteSource::new(front, end);
    let mut reading = FrameReading::new(rt.alloc());
    let held = check_held(rt, &mut reading, &mut source, front);
    check_tail(rt, &mut reading, &mut source, (front, end), held);
}

#[test]
fn a_source_stops_at_every_place(rt: HostRuntime) {
    for len in 0..=12usize {
        for end in &ENDS {
            check_stop(&rt, TWO_FRAMES.get(..len).unwrap_or(&[]), *end);
        }
    }
}

/// A DATA frame.
pub(crate) const ABC: &[u8; 5] = b"\x00\x03abc";

/// Polls once, and again if allocation failed after the frame header.
fn read_again<R: Abort>(
    rt: &R,
    reading: &mut FrameReading,
    source: &mut &[u8],
) -> Polled<Result<FrameOwned, IoReadError>> {
    match polled(reading, source) {
        Polled::NoMemory => {
            let case = "the room before the first byte";
            assert_same(rt, *source, b"abc".as_slice(), case);
            polled(reading, source)
        }
        answer => answer,
    }
}

#[test]
fn refused_memory_loses_no_byte_read(rt: HostRuntime) {
    let mut source = ABC.as_slice();
    let answer = read_again(&rt, &mut FrameReading::new(rt.alloc()), &mut source);
    assert_same(&rt, seen(&answer), ABC_DATA, "the frame");
    assert_same(&rt, source, &[], "all is read");
}

#[test]
fn an_error_is_printed_as_its_cause(rt: HostRuntime) {
    let parse = IoReadError::Parse(ParseError::UnknownFrame);
    check_printed(&rt, &parse, "cannot parse HTTP3 frame as ID is unknown");
    let io = IoReadError::from(bytes::IoReadError::Reset);
    check_printed(&rt, &io, "read operation failed because interrupted");
}
