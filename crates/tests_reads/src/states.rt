//! Every reading state, with sources that wait, end, are reset or disconnect.
use crate::answers::{Answer, CUT, ENDS, FIN, check_answer};
use crate::opened::{control, of_session, opened_here, opened_there};
use crate::reads::poll;
use std::process::Abort;
use test_io::{End, OneByteSource};
use wtransport_proto::bytes::IoReadError as Fault;
use wtransport_proto::frame::{Frame, FrameReading};
use wtransport_proto::stream::{IoReadError, ReadsFrames};

/// An exercise frame of three bytes, an unknown frame of three, and an empty exercise frame of
/// two. Every reading state permits them.
const BYTES: &[u8] = b"\x21\x01a\x0a\x01x\x21\x00";

const WAIT: Answer<'static> = Answer::Pending;

const FRAME: Answer<'static> = Answer::Frame(0x21, b"a");

const SKIP: Answer<'static> = Answer::Again;

const LAST_FRAME: Answer<'static> = Answer::Frame(0x21, b"");

/// The results of polling all bytes. The source is not ready once before each byte and once
/// before its end.
static ANSWERS: [Answer<'static>; 12] = [
    WAIT, WAIT, WAIT, FRAME, WAIT, WAIT, WAIT, SKIP, WAIT, WAIT, LAST_FRAME, WAIT,
];

/// The number of bytes that arrive, the number of results before the end, and whether the bytes
/// end after a complete frame.
type Row = (usize, usize, bool);

static ROWS: [Row; 9] = [
    (0, 1, true),
    (1, 2, false),
    (2, 3, false),
    (3, 5, true),
    (4, 6, false),
    (5, 7, false),
    (6, 9, true),
    (7, 10, false),
    (8, 12, true),
];

/// Returns the last result of a stream with this end, after a complete frame or inside one.
fn last_answer(end: End, is_whole: bool) -> Answer<'static> {
    match end {
        End::Fin if is_whole => FIN,
        End::Fin => CUT,
        End::Reset => Answer::Fault(IoReadError::IO(Fault::Reset)),
        End::NotConnected => Answer::Fault(IoReadError::IO(Fault::NotConnected)),
    }
}

/// Asserts the result of the next poll. The poll is not repeated, so `NoMemory` fails the test.
fn check_next<R: Abort, K: ReadsFrames>(
    rt: &R,
    stream: &mut K,
    reading: &mut FrameReading,
    source: &mut OneByteSource<'_>,
    wanted: &Answer<'_>,
    len: usize,
) {
    let answered = poll(stream, reading, source);
    check_answer(rt, &answered, wanted, "bytes come", len);
}

/// Asserts the results for a row, and that the last one repeats.
fn check_row<R: Abort + AllocGlobal, K: ReadsFrames>(rt: &R, stream: &mut K, row: Row, end: End) {
    let (len, polls, is_whole) = row;
    let mut reading = Frame::read_async(rt.alloc());
    let mut source = OneByteSource::new(BYTES.get(..len).unwrap_or(&[]), end);
    let answers = ANSWERS.get(..polls).expect(rt, "the answers");
    for wanted in answers {
        check_next(rt, stream, &mut reading, &mut source, wanted, len);
    }
    let last = last_answer(end, is_whole);
    check_next(rt, stream, &mut reading, &mut source, &last, len);
    check_next(rt, stream, &mut reading, &mut source, &last, len);
}

/// Asserts the results for each row and each end.
fn check_rows<R: Abort + AllocGlobal, K: ReadsFrames>(rt: &R, stream: &mut K) {
    for end in &ENDS {
        for row in &ROWS {
            check_row(rt, stream, *row, *end);
        }
    }
}

#[test]
fn each_reading_state_waits_and_stops(rt: HostRuntime) {
    check_rows(&rt, &mut opened_there());
    check_rows(&rt, &mut opened_here());
    check_rows(&rt, &mut of_session(&rt, rt.alloc()));
    check_rows(&rt, &mut control(&rt));
}
