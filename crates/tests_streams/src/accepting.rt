//! Accepting a bidirectional stream: its first frame decides whether it belongs to a session or
//! carries a request. The result of a poll is dropped by a call of `drop`, since a drop at the
//! end of a block is proved for each variant and field.
use crate::opened::{front, opened_there, rest, stop_fault};
use crate::same::assert_same;
use std::alloc::Global;
use std::fmt::Display;
use std::mem::drop;
use std::process::Abort;
use test_io::{End, OneByteSource, ScriptedSource};
use wtransport_proto::bytes::{AsyncRead, IoReadError as Fault, Polled, ReadStep};
use wtransport_proto::error::ErrorCode;
use wtransport_proto::frame::{Frame, FrameOwned, FrameReading};
use wtransport_proto::stream::biremote::StreamBiRemoteH3;
use wtransport_proto::stream::{BiAccepted, BiAccepting, IoReadError};

/// The result of accepting a stream: the session ID of a WebTransport stream, with no section; a
/// request, with its field section; or the error.
type Outcome<'a> = Result<(Option<u64>, &'a [u8]), &'a IoReadError>;

/// Returns the outcome, or a sentinel that matches no row if the stream was not decided.
fn outcome_of(accepted: &BiAccepted) -> Outcome<'_> {
    match accepted {
        BiAccepted::WebTransport(stream) => Ok((Some(stream.session_id().into_u64()), &[])),
        BiAccepted::Request(_, _, frame) => Ok((None, frame.payload())),
        BiAccepted::Failed(_, fault) => Err(fault),
        _ => Err(&NOTHING),
    }
}

/// Returns a new stream that the peer opened.
fn accepting(alloc: Global) -> BiAccepting {
    opened_there().accept_async(Frame::read_async(alloc))
}

/// Polls until the stream is accepted or fails.
fn poll_on<S: AsyncRead>(mut accepting: BiAccepting, source: &mut S) -> BiAccepted {
    for _turn in 0..100 {
        match accepting.poll(source) {
            BiAccepted::Again(state) | BiAccepted::Pending(state) | BiAccepted::NoMemory(state) => {
                accepting = state;
            }
            found => return found,
        }
    }
    BiAccepted::Pending(accepting)
}

/// The error for a frame that the stream does not permit.
const UNEXPECTED: IoReadError = IoReadError::H3(ErrorCode::FrameUnexpected);

const LATE: IoReadError = IoReadError::H3(ErrorCode::Frame);

const BAD_SESSION: IoReadError = IoReadError::H3(ErrorCode::Id);

const TOO_BIG: IoReadError = IoReadError::H3(ErrorCode::ExcessiveLoad);

const FIN: IoReadError = IoReadError::IO(Fault::ImmediateFin);

const NOTHING: IoReadError = IoReadError::H3(ErrorCode::NoError);

/// The bytes of a stream, and its outcome.
struct Row {
    case: &'static str,
    bytes: &'static [u8],
    outcome: Outcome<'static>,
    /// The bytes that are then left in the source.
    left: &'static [u8],
}

static ROWS: [Row; 21] = [
    Row {
        case: "a session, and bytes that look like a frame",
        bytes: b"\x40\x41\x04\x00\x01a",
        outcome: Ok((Some(4), b"")),
        left: b"\x00\x01a",
    },
    Row {
        case: "a session alone",
        bytes: b"\x40\x41\x00",
        outcome: Ok((Some(0), b"")),
        left: b"",
    },
    Row {
        case: "a session in longer numbers",
        bytes: b"\x80\x00\x00\x41\x44\x04a",
        outcome: Ok((Some(1028), b"")),
        left: b"a",
    },
    Row {
        case: "a session after unknown frames",
        bytes: b"\x0a\x02xy\x0b\x00\x40\x41\x04\xff",
        outcome: Ok((Some(4), b"")),
        left: b"\xff",
    },
    Row {
        case: "a session after a reserved frame",
        bytes: b"\x21\x01a\x40\x41\x04",
        outcome: Err(&LATE),
        left: b"",
    },
    Row {
        case: "a request and its data",
        bytes: b"\x01\x02ab\x00\x01c",
        outcome: Ok((None, b"ab")),
        left: b"\x00\x01c",
    },
    Row {
        case: "a request of no fields",
        bytes: b"\x01\x00\x40\x41\x04",
        outcome: Ok((None, b"")),
        left: b"\x40\x41\x04",
    },
    Row {
        case: "a request after a reserved frame",
        bytes: b"\x21\x07Payload\x01\x01a",
        outcome: Ok((None, b"a")),
        left: b"",
    },
    Row {
        case: "a request after unknown and reserved frames",
        bytes: b"\x0a\x01x\x21\x00\x40\x5f\x00\x0b\x00\x01\x01a\x01",
        outcome: Ok((None, b"a")),
        left: b"\x01",
    },
    Row {
        case: "data first",
        bytes: b"\x00\x01a\x01\x00",
        outcome: Err(&UNEXPECTED),
        left: b"\x01\x00",
    },
    Row {
        case: "data after a reserved frame",
        bytes: b"\x21\x00\x00\x00\x01",
        outcome: Err(&UNEXPECTED),
        left: b"\x01",
    },
    Row {
        case: "settings first",
        bytes: b"\x04\x00\x01\x00",
        outcome: Err(&UNEXPECTED),
        left: b"\x01\x00",
    },
    Row {
        case: "an invalid session ID",
        bytes: b"\x40\x41\x01\x01",
        outcome: Err(&BAD_SESSION),
        left: b"\x01",
    },
    Row {
        case: "an invalid session ID after a reserved frame",
        bytes: b"\x21\x00\x40\x41\x01\x01",
        outcome: Err(&BAD_SESSION),
        left: b"\x01",
    },
    Row {
        case: "a request of 4097 bytes",
        bytes: b"\x01\x50\x01abc",
        outcome: Err(&TOO_BIG),
        left: b"abc",
    },
    Row {
        case: "nothing",
        bytes: b"",
        outcome: Err(&FIN),
        left: b"",
    },
    Row {
        case: "a reserved frame alone",
        bytes: b"\x21\x00",
        outcome: Err(&FIN),
        left: b"",
    },
    Row {
        case: "an unknown frame alone",
        bytes: b"\x0a\x00",
        outcome: Err(&FIN),
        left: b"",
    },
    Row {
        case: "half a type",
        bytes: b"\x40",
        outcome: Err(&LATE),
        left: b"",
    },
    Row {
        case: "half a session frame",
        bytes: b"\x40\x41",
        outcome: Err(&LATE),
        left: b"",
    },
    Row {
        case: "half a request",
        bytes: b"\x01\x02a",
        outcome: Err(&LATE),
        left: b"",
    },
];

/// Asserts the outcome of accepting a stream.
fn check_found<R: Abort, S: AsyncRead, N: Display + Drop>(
    rt: &R,
    accepting: BiAccepting,
    source: &mut S,
    wanted: Outcome<'static>,
    case: N,
) {
    let found = poll_on(accepting, source);
    assert_same(rt, outcome_of(&found), wanted, case);
    drop(found);
}

/// Asserts the outcome of a row with its bytes in this source.
fn check_row<R: Abort + AllocGlobal, S: AsyncRead>(rt: &R, source: &mut S, row: &Row) {
    check_found(rt, accepting(rt.alloc()), source, row.outcome, row.case);
}

/// Asserts the outcome of a row whose bytes are in a slice.
fn check_slice<R: Abort + AllocGlobal>(rt: &R, row: &Row) {
    let mut source = row.bytes;
    check_row(rt, &mut source, row);
    assert_same(rt, source, row.left, row.case);
}

/// Asserts the outcome of a row whose bytes arrive one by one, with a wait before each.
fn check_trickle<R: Abort + AllocGlobal>(rt: &R, row: &Row) {
    let mut source = OneByteSource::new(row.bytes, End::Fin);
    check_row(rt, &mut source, row);
    assert_same(rt, source.rest(), row.left, row.case);
}

/// Asserts the outcome of a row whose bytes arrive in these steps.
fn check_steps<R: Abort + AllocGlobal>(rt: &R, steps: &[ReadStep], row: &Row) {
    let mut source = ScriptedSource::new(row.bytes, steps);
    check_row(rt, &mut source, row);
    assert_same(rt, source.rest(), row.left, row.case);
}

/// Two bytes per call, not ready before each call; then the rest at once.
static BY_TWO: [[ReadStep; 2]; 12] = [[ReadStep::NotReady, ReadStep::Bytes(2)]; 12];

/// Three bytes per call, not ready before each call; then the rest at once.
static BY_THREE: [[ReadStep; 2]; 12] = [[ReadStep::NotReady, ReadStep::Bytes(3)]; 12];

/// Asserts the outcome of a row whose bytes arrive in twos and threes.
fn check_cuts<R: Abort + AllocGlobal>(rt: &R, row: &Row) {
    check_steps(rt, BY_TWO.as_flattened(), row);
    check_steps(rt, BY_THREE.as_flattened(), row);
}

/// Asserts the outcome of each row for bytes that are available at once, arrive one by one, and
/// arrive in pieces.
fn check_each<R: Abort + AllocGlobal>(rt: &R, rows: &[Row]) {
    for row in rows {
        check_slice(rt, row);
        check_trickle(rt, row);
        check_cuts(rt, row);
    }
}

#[test]
fn the_first_frame_decides_however_cut(rt: HostRuntime) {
    check_each(&rt, &ROWS);
}

/// Returns the state after a poll that skipped a frame, was not ready, ran out of memory, or
/// failed.
fn state_of<R: Abort>(rt: &R, accepted: BiAccepted) -> BiAccepting {
    match accepted {
        BiAccepted::Again(state)
        | BiAccepted::Pending(state)
        | BiAccepted::NoMemory(state)
        | BiAccepted::Failed(state, _) => state,
        BiAccepted::WebTransport(_) | BiAccepted::Request(_, _, _) => rt.panic("a state"),
    }
}

/// How often the source was not ready, and the number of skipped frames, or parts of frames.
type Turns = (usize, usize);

/// Polls as `poll_on` does, and counts.
fn count_turns<S: AsyncRead>(mut accepting: BiAccepting, source: &mut S) -> Turns {
    let (mut waits, mut skipped) = (0usize, 0usize);
    for _turn in 0..100 {
        match accepting.poll(source) {
            BiAccepted::Again(state) => {
                skipped = skipped.saturating_add(1);
                accepting = state;
            }
            BiAccepted::Pending(state) => {
                waits = waits.saturating_add(1);
                accepting = state;
            }
            BiAccepted::NoMemory(state) => accepting = state,
            found => {
                drop(found);
                return (waits, skipped);
            }
        }
    }
    (waits, skipped)
}

/// Bytes that arrive one by one with a wait before each, the number of waits and of skipped
/// frames, and the case.
type TurnRow = (&'static [u8], Turns, &'static str);

/// The turns of a new stream.
static TURNS: [TurnRow; 4] = [
    (b"\x40\x41\x04", (3, 0), "a session"),
    (b"\x0a\x02xy\x0b\x00\x40\x41\x04", (9, 2), "unknown frames"),
    (b"\x21\x07Payload\x01\x01a", (12, 1), "a reserved frame"),
    (b"\x21\x00\x00\x00", (4, 1), "data"),
];

/// Asserts the turns of a new stream whose bytes arrive one by one, with a wait before each.
fn check_turns<R: Abort + AllocGlobal>(rt: &R, row: &TurnRow) {
    let (bytes, wanted, case) = *row;
    let mut source = OneByteSource::new(bytes, End::Fin);
    let turns = count_turns(accepting(rt.alloc()), &mut source);
    assert_same(rt, turns, wanted, case);
}

#[test]
fn each_poll_takes_one_frame(rt: HostRuntime) {
    for row in &TURNS {
        check_turns(&rt, row);
    }
}

/// An unknown frame of 8192 bytes, followed by a session frame.
#[test]
fn a_long_unknown_frame_is_skipped_in_parts(rt: HostRuntime) {
    let mut bytes = Vec::from_slice(rt.alloc(), &[0x0a, 0x60, 0x00]).expect(&rt, "memory");
    bytes.resize(3 + 8192, 0).expect(&rt, "memory");
    let session = bytes.extend_from_slice(b"\x40\x41\x04rest");
    session.expect(&rt, "memory");
    let mut source = bytes.as_slice();
    let turns = count_turns(accepting(rt.alloc()), &mut source);
    assert_same(&rt, turns, (0, 2), "parts");
    assert_same(&rt, source, b"rest".as_slice(), "bytes left");
}

/// Asserts that the stream fails with this error. Returns its state.
fn check_fault<R: Abort, S: AsyncRead>(
    rt: &R,
    accepting: BiAccepting,
    source: &mut S,
    fault: &IoReadError,
    len: usize,
) -> BiAccepting {
    let found = poll_on(accepting, source);
    assert_same(rt, outcome_of(&found), Err(fault), len);
    state_of(rt, found)
}

/// The frame of session 4, followed by a byte.
const SESSION_4: &[u8] = b"\x40\x41\x04a";

/// Asserts the error after the first `len` bytes, with a wait before each, and this end, twice.
/// Then asserts that the stream is accepted with the remaining bytes, and that the byte after the
/// frame is left.
fn check_stop<R: Abort + AllocGlobal>(rt: &R, len: usize, end: End) {
    let mut source = OneByteSource::new(front(SESSION_4, len), end);
    let fault = stop_fault(len, end);
    let state = check_fault(rt, accepting(rt.alloc()), &mut source, &fault, len);
    let state = check_fault(rt, state, &mut source, &fault, len);
    let mut source = rest(SESSION_4, len);
    check_found(rt, state, &mut source, Ok((Some(4), b"")), len);
    assert_same(rt, source, b"a".as_slice(), len);
}

/// All endings of a source.
static ENDS: [End; 3] = End::ALL;

#[test]
fn a_second_source_goes_on(rt: HostRuntime) {
    for len in 0..3usize {
        for end in &ENDS {
            check_stop(&rt, len, *end);
        }
    }
}

/// The stream's own call reads a reserved frame before it is accepted.
#[test]
fn frames_read_before_count(rt: HostRuntime) {
    let mut stream = opened_there();
    let mut reading = Frame::read_async(rt.alloc());
    let _read = stream.read_frame_async(&mut reading, &mut b"\x21\x00".as_slice());
    let accepting = stream.accept_async(Frame::read_async(rt.alloc()));
    let mut source = b"\x40\x41\x04".as_slice();
    check_found(&rt, accepting, &mut source, Err(&LATE), "late");
}

/// The stream's own call reads half a frame type before it is accepted.
#[test]
fn bytes_held_before_count(rt: HostRuntime) {
    let mut stream = opened_there();
    let mut reading = Frame::read_async(rt.alloc());
    let _cut = stream.read_frame_async(&mut reading, &mut b"\x40".as_slice());
    let accepting = stream.accept_async(reading);
    let mut source = b"\x41\x04".as_slice();
    check_found(&rt, accepting, &mut source, Ok((Some(4), b"")), "held");
}

/// A reserved frame, a HEADERS frame of 48 bytes, and a byte after it.
const LONG: &[u8] = b"\x21\x00\x01\x30aaaaaaaabbbbbbbbccccccccddddddddeeeeeeeeffffffff\x07";

/// Polls once, and again if allocation for the request failed. The frame header is kept in
/// between.
fn poll_again<R: Abort>(rt: &R, state: BiAccepting, source: &mut &[u8]) -> BiAccepted {
    match state.poll(source) {
        BiAccepted::NoMemory(state) => {
            assert_same(rt, *source, rest(LONG, 4), "the head is held");
            state.poll(source)
        }
        found => found,
    }
}

#[test]
fn refused_memory_leaves_the_request(rt: HostRuntime) {
    let mut source = LONG;
    let state = state_of(&rt, accepting(rt.alloc()).poll(&mut source));
    let left = rest(LONG, 2);
    assert_same(&rt, source, left, "the reserved frame is skipped");
    let found = poll_again(&rt, state, &mut source);
    assert_same(&rt, source, b"\x07".as_slice(), "bytes left");
    let section = match &found {
        BiAccepted::Request(_, _, frame) => frame.payload(),
        _ => &[],
    };
    assert_same(&rt, section, front(rest(LONG, 4), 48), "the request");
    drop(found);
}

/// Returns the stream of a request, and its frame reader.
fn request_of<R: Abort>(rt: &R, found: BiAccepted) -> (StreamBiRemoteH3, FrameReading) {
    match found {
        BiAccepted::Request(stream, reading, frame) => {
            drop(frame);
            (stream, reading)
        }
        _ => rt.panic("a request"),
    }
}

/// The result of one poll for a frame.
type PollAnswer = Polled<Result<FrameOwned, IoReadError>>;

/// Polls for the next frame, again if allocation failed.
fn read_again(
    stream: &mut StreamBiRemoteH3,
    reading: &mut FrameReading,
    source: &mut &[u8],
) -> PollAnswer {
    match stream.read_frame_async(reading, source) {
        Polled::NoMemory => stream.read_frame_async(reading, source),
        read => read,
    }
}

#[test]
fn a_request_is_read_on(rt: HostRuntime) {
    let mut source = b"\x01\x01a\x00\x01b".as_slice();
    let found = poll_on(accepting(rt.alloc()), &mut source);
    let (mut stream, mut reading) = request_of(&rt, found);
    let read = read_again(&mut stream, &mut reading, &mut source);
    let payload = match &read {
        Polled::Ready(Ok(frame)) => frame.payload(),
        _ => &[],
    };
    assert_same(&rt, payload, b"b".as_slice(), "data");
    assert_same(&rt, source, [].as_slice(), "bytes left");
}
