//! Reading frames from streams poll by poll.
use crate::answers::{Answer, CUT, ENDS, FIN, PollAnswer, check_answer, pad};
use crate::opened::opened_there;
use crate::reads::{check_poll, check_polls, check_source, poll};
use crate::same::assert_same;
use std::alloc::Global;
use std::process::Abort;
use test_io::{End, OneByteSource, ScriptedSource};
use wtransport_proto::bytes::{IoReadError as Fault, Polled, ReadStep};
use wtransport_proto::error::ErrorCode;
use wtransport_proto::frame::{Frame, FrameReading};
use wtransport_proto::stream::IoReadError;
use wtransport_proto::stream::biremote::StreamBiRemoteH3;

/// A source that answers by steps.
struct Row {
    case: &'static str,
    bytes: &'static [u8],
    /// The steps in which the bytes arrive.
    steps: &'static [ReadStep],
    /// The results of the polls.
    answers: &'static [Answer<'static>],
}

static ROWS: [Row; 9] = [
    Row {
        case: "nothing",
        bytes: b"",
        steps: &[],
        answers: &[FIN],
    },
    Row {
        case: "a cut frame",
        bytes: b"\x00",
        steps: &[],
        answers: &[CUT],
    },
    Row {
        case: "a cut frame and a reset",
        bytes: b"\x00",
        steps: &[ReadStep::Bytes(1), ReadStep::Reset],
        answers: &[Answer::Fault(IoReadError::IO(Fault::Reset))],
    },
    Row {
        case: "an unknown type alone",
        bytes: b"\x0a",
        steps: &[],
        answers: &[CUT],
    },
    Row {
        case: "unknown and empty, then data",
        bytes: b"\x0a\x00\x00\x01a",
        steps: &[],
        answers: &[Answer::Again, Answer::Frame(0x00, b"a"), FIN],
    },
    Row {
        case: "a refused frame counts as the first",
        bytes: b"\x04\x02\x33\x01\x40\x41\x00",
        steps: &[],
        answers: &[
            Answer::Fault(IoReadError::H3(ErrorCode::FrameUnexpected)),
            CUT,
            FIN,
        ],
    },
    Row {
        case: "unknown, of the largest length",
        bytes: b"\x0a\xff\xff\xff\xff\xff\xff\xff\xff",
        steps: &[],
        answers: &[CUT],
    },
    Row {
        case: "not ready inside an unknown frame",
        bytes: b"\x0a\x05abcde\x00\x00",
        steps: &[ReadStep::Bytes(3), ReadStep::NotReady],
        answers: &[
            Answer::Pending,
            Answer::Again,
            Answer::Frame(0x00, b""),
            FIN,
        ],
    },
    Row {
        case: "faults that pass",
        bytes: b"\x00\x01a",
        steps: &[
            ReadStep::Reset,
            ReadStep::Bytes(1),
            ReadStep::NotConnected,
            ReadStep::Bytes(1),
            ReadStep::Reset,
        ],
        answers: &[
            Answer::Fault(IoReadError::IO(Fault::Reset)),
            Answer::Fault(IoReadError::IO(Fault::NotConnected)),
            Answer::Fault(IoReadError::IO(Fault::Reset)),
            Answer::Frame(0x00, b"a"),
            FIN,
        ],
    },
];

/// Asserts the results of polling a stream that the peer opened.
fn check_row<R: Abort>(rt: &R, alloc: Global, row: &Row) {
    let mut stream = opened_there();
    let mut reading = Frame::read_async(alloc);
    let mut source = ScriptedSource::new(row.bytes, row.steps);
    let answers = row.answers;
    check_polls(
        rt,
        &mut stream,
        &mut reading,
        &mut source,
        answers,
        row.case,
    );
}

#[test]
fn polls_answer_by_the_bytes(rt: HostRuntime) {
    for row in &ROWS {
        check_row(&rt, rt.alloc(), row);
    }
}

/// A source of thousands of bytes.
struct LongRow {
    case: &'static str,
    /// The first bytes, which are padded with zeros.
    front: [u8; 3],
    /// The total length.
    len: usize,
    /// The results of the polls.
    answers: &'static [Answer<'static>],
}

/// An empty DATA frame is two zeros.
static LONG: [LongRow; 4] = [
    LongRow {
        case: "4096 bytes are one part",
        front: [0x0a, 0x50, 0x00],
        len: 3 + 4096 + 2,
        answers: &[Answer::Again, Answer::Frame(0x00, b""), FIN],
    },
    LongRow {
        case: "4097 bytes are two parts",
        front: [0x0a, 0x50, 0x01],
        len: 3 + 4097 + 2,
        answers: &[Answer::Again, Answer::Again, Answer::Frame(0x00, b""), FIN],
    },
    LongRow {
        case: "8192 bytes are two parts",
        front: [0x0a, 0x60, 0x00],
        len: 3 + 8192 + 2,
        answers: &[Answer::Again, Answer::Again, Answer::Frame(0x00, b""), FIN],
    },
    LongRow {
        case: "the last byte is missing",
        front: [0x0a, 0x50, 0x01],
        len: 3 + 4096,
        answers: &[Answer::Again, CUT],
    },
];

/// Asserts the results of polling a stream that the peer opened.
fn check_long<R: Abort + AllocGlobal>(rt: &R, row: &LongRow) {
    let bytes = pad(rt, rt.alloc(), &row.front, row.len);
    let source = (bytes.as_slice(), row.answers, row.case);
    check_source(rt, &mut opened_there(), &source);
}

#[test]
fn long_unknown_frames_are_passed_in_parts(rt: HostRuntime) {
    for row in &LONG {
        check_long(&rt, row);
    }
}

/// A byte has not arrived yet.
static WAIT: Answer<'static> = Answer::Pending;

/// Asserts the result of the next poll after a number of waits.
fn check_late<R: Abort>(
    rt: &R,
    stream: &mut StreamBiRemoteH3,
    reading: &mut FrameReading,
    source: &mut OneByteSource<'_>,
    waits: usize,
    answer: &Answer<'_>,
) {
    for _turn in 0..waits {
        check_poll(rt, stream, reading, source, &WAIT, ("late", 0));
    }
    check_poll(rt, stream, reading, source, answer, ("there", 0));
}

/// How often the source is not ready, and the result of the next poll.
type LateRow = (usize, Answer<'static>);

static LATE: [LateRow; 3] = [(9, Answer::Frame(0x21, b"Payload")), (3, CUT), (1, FIN)];

#[test]
fn each_byte_may_come_late(rt: HostRuntime) {
    let mut stream = opened_there();
    let mut reading = Frame::read_async(rt.alloc());
    let mut source = OneByteSource::new(EXERCISE_THEN_SESSION, End::Fin);
    for (waits, answer) in &LATE {
        check_late(&rt, &mut stream, &mut reading, &mut source, *waits, answer);
    }
}

/// A source that is reset inside an unknown frame.
static RESET_INSIDE: [ReadStep; 2] = [ReadStep::Bytes(3), ReadStep::Reset];

/// The result of polling it.
static RESET: [Answer<'static>; 1] = [Answer::Fault(IoReadError::IO(Fault::Reset))];

/// The results of polling the rest of the frame, followed by an empty DATA frame.
static REST: [Answer<'static>; 3] = [Answer::Again, Answer::Frame(0x00, b""), FIN];

#[test]
fn a_second_source_goes_on(rt: HostRuntime) {
    let mut stream = opened_there();
    let mut reading = Frame::read_async(rt.alloc());
    let mut source = ScriptedSource::new(b"\x0a\x05a", &RESET_INSIDE);
    check_polls(&rt, &mut stream, &mut reading, &mut source, &RESET, "first");
    let mut source = b"bcde\x00\x00".as_slice();
    check_polls(&rt, &mut stream, &mut reading, &mut source, &REST, "second");
}

/// An exercise frame of nine bytes, and a late frame of session 0.
const EXERCISE_THEN_SESSION: &[u8] = b"\x21\x07Payload\x40\x41\x00";

/// Returns the last result of a stream over the first `len` bytes, followed by this end.
fn last_answer(len: usize, end: End) -> Answer<'static> {
    match (len, end) {
        (12, _) => CUT,
        (0 | 9, End::Fin) => FIN,
        (_, End::Fin) => CUT,
        (_, End::Reset) => Answer::Fault(IoReadError::IO(Fault::Reset)),
        (_, End::NotConnected) => Answer::Fault(IoReadError::IO(Fault::NotConnected)),
    }
}

/// Returns the result of the next poll for which the source was ready and allocation did not
/// fail.
fn next_answer(
    stream: &mut StreamBiRemoteH3,
    reading: &mut FrameReading,
    source: &mut OneByteSource<'_>,
) -> PollAnswer {
    for _turn in 0..20 {
        match stream.read_frame_async(reading, source) {
            Polled::Pending | Polled::NoMemory => {}
            answered => return answered,
        }
    }
    Polled::Pending
}

/// Asserts this next result.
fn check_next<R: Abort>(
    rt: &R,
    stream: &mut StreamBiRemoteH3,
    reading: &mut FrameReading,
    source: &mut OneByteSource<'_>,
    answer: &Answer<'_>,
    place: (&str, usize),
) {
    let (word, len) = place;
    let came = next_answer(stream, reading, source);
    check_answer(rt, &came, answer, word, len);
}

/// The first frame.
static FIRST: Answer<'static> = Answer::Frame(0x21, b"Payload");

/// Asserts that the first frame is the next result, if it has arrived.
fn check_first<R: Abort>(
    rt: &R,
    stream: &mut StreamBiRemoteH3,
    reading: &mut FrameReading,
    source: &mut OneByteSource<'_>,
    len: usize,
) {
    if len >= 9 {
        check_next(rt, stream, reading, source, &FIRST, ("first", len));
    }
}

/// Asserts the last result, and that it repeats, except after a late session frame.
fn check_last<R: Abort>(
    rt: &R,
    stream: &mut StreamBiRemoteH3,
    reading: &mut FrameReading,
    source: &mut OneByteSource<'_>,
    (len, end): (usize, End),
) {
    let last = last_answer(len, end);
    check_next(rt, stream, reading, source, &last, ("last", len));
    if len < 12 {
        check_next(rt, stream, reading, source, &last, ("again", len));
    }
}

/// Asserts the results of a stream over the first `len` bytes.
fn check_stop<R: Abort + AllocGlobal>(rt: &R, len: usize, end: End) {
    let mut stream = opened_there();
    let mut reading = Frame::read_async(rt.alloc());
    let mut source = OneByteSource::new(EXERCISE_THEN_SESSION.get(..len).unwrap_or(&[]), end);
    check_first(rt, &mut stream, &mut reading, &mut source, len);
    check_last(rt, &mut stream, &mut reading, &mut source, (len, end));
}

#[test]
fn bytes_may_stop_at_each_place(rt: HostRuntime) {
    for len in 0..13usize {
        for end in &ENDS {
            check_stop(&rt, len, *end);
        }
    }
}

/// Returns the result of the next poll. If allocation for the payload failed, the frame header is
/// kept, and the poll is repeated.
fn poll_payload<R: Abort>(
    rt: &R,
    stream: &mut StreamBiRemoteH3,
    reading: &mut FrameReading,
    source: &mut &[u8],
) -> PollAnswer {
    match poll(stream, reading, source) {
        Polled::NoMemory => {
            assert_same(rt, *source, b"abc".as_slice(), "rest of the source");
            poll(stream, reading, source)
        }
        answered => answered,
    }
}

/// The DATA frame that is then read.
static DATA: Answer<'static> = Answer::Frame(0x00, b"abc");

#[test]
fn refused_memory_for_a_payload_is_asked_for_again(rt: HostRuntime) {
    let mut stream = opened_there();
    let mut reading = Frame::read_async(rt.alloc());
    let mut source = b"\x00\x03abc".as_slice();
    let answered = poll_payload(&rt, &mut stream, &mut reading, &mut source);
    check_answer(&rt, &answered, &DATA, "data", 0);
    assert_same(&rt, source.len(), 0, "bytes left");
}
