//! Driving streams.
use crate::answers::{number_and_payload, pad};
use crate::opened::{control, of_session, opened_here, opened_there};
use crate::same::assert_same;
use std::alloc::Global;
use std::process::Abort;
use test_io::{End, OneByteSource};
use wtransport_proto::bytes::{AsyncRead, BufferReader, IoReadError as Fault};
use wtransport_proto::error::ErrorCode;
use wtransport_proto::frame::{Frame, FrameOwned, FrameReading};
use wtransport_proto::stream::biremote::StreamBiRemoteH3;
use wtransport_proto::stream::{Driven, IoReadError, ReadsFrames, drive};

const FIN: Driven = Driven::Ended(IoReadError::IO(Fault::ImmediateFin));

const CUT: Driven = Driven::Ended(IoReadError::H3(ErrorCode::Frame));

/// Drives the stream, again if allocation failed.
fn drive_again<K: ReadsFrames, S: AsyncRead>(
    stream: &mut K,
    reading: &mut FrameReading,
    source: &mut S,
    out: &mut Vec<FrameOwned>,
    polls: u32,
) -> Driven
    requires { K.can stream.old }
{
    match drive(stream, reading, source, out, polls) {
        Driven::NoMemory => drive(stream, reading, source, out, polls),
        driven => driven,
    }
}

/// Asserts the frames in the output, by type and payload.
fn check_frames<R: Abort>(rt: &R, out: &Vec<FrameOwned>, frames: &[(u64, &[u8])]) {
    assert_same(rt, out.len(), frames.len(), "frames put out");
    for (place, wanted) in frames.iter().enumerate() {
        assert_same(rt, frame_at(out, place), Some(*wanted), place);
    }
}

/// Returns the frame at this index of the output, by type and payload.
fn frame_at(out: &Vec<FrameOwned>, place: usize) -> Option<(u64, &[u8])> {
    match out.get(place) {
        Some(frame) => Some(number_and_payload(frame)),
        None => None,
    }
}

/// A stream that the peer opened, and the frames that it has output.
#[derive(Drop)]
struct Driving {
    stream: StreamBiRemoteH3,
    reading: FrameReading,
    out: Vec<FrameOwned>,
}

impl Driving {
    /// Creates a new stream.
    fn new(alloc: Global) -> Self {
        Driving {
            stream: opened_there(),
            reading: Frame::read_async(alloc),
            out: Vec::new(alloc),
        }
    }

    /// Drives the stream with at most ten polls, and stops if allocation fails.
    fn once<S: AsyncRead>(&mut self, source: &mut S) -> Driven {
        drive(
            &mut self.stream,
            &mut self.reading,
            source,
            &mut self.out,
            10,
        )
    }

    /// Drives the stream with at most `polls` polls.
    fn on<S: AsyncRead>(&mut self, source: &mut S, polls: u32) -> Driven {
        drive_again(
            &mut self.stream,
            &mut self.reading,
            source,
            &mut self.out,
            polls,
        )
    }

    /// Asserts the result of one drive. Frames are counted from the start of the stream.
    fn check<R: Abort>(&mut self, rt: &R, bytes: &mut &[u8], part: &Part, case: &str) {
        let came = self.on(bytes, part.polls);
        let came = (&came, self.out.len(), bytes.len());
        assert_same(rt, came, (&part.end, part.count, part.left), case);
    }
}

/// One drive over part of a stream.
struct Part {
    /// The most polls.
    polls: u32,
    /// The result of the drive.
    end: Driven,
    /// The number of frames that are then in the output.
    count: usize,
    /// The number of bytes that are then left.
    left: usize,
}

const TWO: &[u8] = b"\x00\x01a\x00\x01b";

static TWO_FRAMES: [(u64, &[u8]); 2] = [(0x00, b"a"), (0x00, b"b")];

/// Drives the stream. If allocation for a frame failed, the frame is not output, and a second
/// drive continues.
fn drive_frames<R: Abort>(rt: &R, driving: &mut Driving, source: &mut &[u8]) -> Driven {
    match driving.once(source) {
        Driven::NoMemory => {
            assert_same(rt, driving.out.len() < 2, true, "one is not put out");
            driving.once(source)
        }
        end => end,
    }
}

#[test]
fn refused_memory_loses_no_frame(rt: HostRuntime) {
    let mut driving = Driving::new(rt.alloc());
    let mut source = TWO;
    let end = drive_frames(&rt, &mut driving, &mut source);
    assert_same(&rt, end, FIN, "the end");
    check_frames(&rt, &driving.out, &TWO_FRAMES);
}

/// Asserts the results of the drives of a new stream over these bytes, one for each part, and the
/// frames in the output.
fn check_parts<R: Abort + AllocGlobal>(
    rt: &R,
    bytes: &[u8],
    parts: &[Part],
    frames: &[(u64, &[u8])],
) {
    let mut driving = Driving::new(rt.alloc());
    let mut rest = bytes;
    for part in parts {
        driving.check(rt, &mut rest, part, "part");
    }
    check_frames(rt, &driving.out, frames);
}

static ONE_BY_ONE: [Part; 3] = [
    Part {
        polls: 1,
        end: Driven::Spent,
        count: 1,
        left: 3,
    },
    Part {
        polls: 1,
        end: Driven::Spent,
        count: 2,
        left: 0,
    },
    Part {
        polls: 1,
        end: FIN,
        count: 2,
        left: 0,
    },
];

#[test]
fn polls_are_spent_one_by_one(rt: HostRuntime) {
    check_parts(&rt, TWO, &ONE_BY_ONE, &TWO_FRAMES);
}

/// The drive over a cut unknown frame.
const CUT_AT_ONCE: Part = Part {
    polls: 2,
    end: CUT,
    count: 0,
    left: 0,
};

#[test]
fn a_cut_unknown_frame_ends_it(rt: HostRuntime) {
    check_parts(&rt, b"\x0a\x0a\x00\x00", &[CUT_AT_ONCE], &[]);
}

/// Asserts the results of the drives over an unknown frame of 8192 bytes and an empty DATA frame,
/// one for each part.
fn check_unknown<R: Abort + AllocGlobal>(rt: &R, parts: &[Part]) {
    let unknown = pad(rt, rt.alloc(), &[0x0a, 0x60, 0x00], 3 + 8192 + 2);
    check_parts(rt, unknown.as_slice(), parts, &[(0x00, b"")]);
}

static IN_PARTS: [Part; 4] = [
    Part {
        polls: 0,
        end: Driven::Spent,
        count: 0,
        left: 8197,
    },
    Part {
        polls: 1,
        end: Driven::Spent,
        count: 0,
        left: 4098,
    },
    Part {
        polls: 1,
        end: Driven::Spent,
        count: 0,
        left: 2,
    },
    Part {
        polls: 1,
        end: Driven::Spent,
        count: 1,
        left: 0,
    },
];

/// The drive over all parts.
const ALL_AT_ONCE: Part = Part {
    polls: 3,
    end: Driven::Spent,
    count: 1,
    left: 0,
};

#[test]
fn each_part_of_an_unknown_frame_is_a_poll(rt: HostRuntime) {
    check_unknown(&rt, &IN_PARTS);
    check_unknown(&rt, &[ALL_AT_ONCE]);
}

/// The result of a drive, and the case.
type EndRow = (Driven, &'static str);

/// Asserts the result of a drive by its row.
fn check_end<R: Abort>(
    rt: &R,
    driving: &mut Driving,
    source: &mut OneByteSource<'_>,
    row: &EndRow,
) {
    let (end, case) = row;
    assert_same(rt, &driving.on(source, 10), end, case);
}

static WAITING: EndRow = (Driven::Waiting, "a wait");

static AFTER_WAITS: EndRow = (CUT, "after all waits");

#[test]
fn waits_lose_no_frame(rt: HostRuntime) {
    let mut driving = Driving::new(rt.alloc());
    let mut source = OneByteSource::new(b"\x21\x07Payload\x40\x41\x00", End::Fin);
    for _turn in 0..12 {
        check_end(&rt, &mut driving, &mut source, &WAITING);
    }
    check_end(&rt, &mut driving, &mut source, &AFTER_WAITS);
    check_frames(&rt, &driving.out, &[(0x21, b"Payload")]);
}

/// The drives over a source of one byte followed by a reset.
static CUT_SOURCE: [EndRow; 3] = [
    (Driven::Waiting, "before the byte"),
    (Driven::Waiting, "before the end"),
    (Driven::Ended(IoReadError::IO(Fault::Reset)), "at the end"),
];

/// The drive over a second source with one more byte.
static SECOND: Part = Part {
    polls: 10,
    end: FIN,
    count: 1,
    left: 0,
};

#[test]
fn a_drive_goes_on_over_a_second_source(rt: HostRuntime) {
    let mut driving = Driving::new(rt.alloc());
    let mut source = OneByteSource::new(b"\x00", End::Reset);
    for row in &CUT_SOURCE {
        check_end(&rt, &mut driving, &mut source, row);
    }
    let mut bytes = b"\x01a".as_slice();
    driving.check(&rt, &mut bytes, &SECOND, "the second source");
    check_frames(&rt, &driving.out, &[(0x00, b"a")]);
}

/// A stream that is driven.
struct Row {
    name: &'static str,
    bytes: &'static [u8],
    /// The frames in the output.
    frames: &'static [(u64, &'static [u8])],
    /// The result of the drive.
    end: Driven,
}

/// Asserts that driving the stream over the bytes of a row outputs its frames and returns its
/// result.
fn check_driven<R: Abort + AllocGlobal, K: ReadsFrames>(rt: &R, stream: &mut K, row: &Row) {
    let mut reading = Frame::read_async(rt.alloc());
    let mut out = Vec::new(rt.alloc());
    let mut source = row.bytes;
    assert!(rt; stream.can_read());
    let end = drive_again(stream, &mut reading, &mut source, &mut out, 10);
    assert_same(rt, &end, &row.end, row.name);
    check_frames(rt, &out, row.frames);
}

/// Read from a buffer, the stream gives the first of the row's frames, or none.
fn check_buffered<R: Abort, K: ReadsFrames>(rt: &R, stream: &mut K, row: &Row) {
    assert!(rt; stream.can_read());
    let first = match stream.read_frame_from_buffer(&mut BufferReader::new(row.bytes)) {
        Ok(Some(frame)) => Some(frame),
        Ok(None) | Err(_) => None,
    };
    let came = first.as_ref().map(number_and_payload);
    assert_same(rt, came, row.frames.first().copied(), row.name);
}

/// The result for a frame that the stream does not permit.
const UNEXPECTED: Driven = Driven::Ended(IoReadError::H3(ErrorCode::FrameUnexpected));

/// Two session frames.
const SESSIONS: &[u8] = b"\x40\x41\x00\x40\x41\x00";

static THERE: Row = Row {
    name: "opened there",
    bytes: SESSIONS,
    frames: &[(0x41, b"")],
    end: CUT,
};

static HERE: Row = Row {
    name: "opened here",
    bytes: SESSIONS,
    frames: &[],
    end: UNEXPECTED,
};

static SESSION: Row = Row {
    name: "of a session",
    bytes: b"\x01\x01a\x04\x00",
    frames: &[(0x01, b"a")],
    end: UNEXPECTED,
};

static CONTROL: Row = Row {
    name: "control",
    bytes: b"\x04\x00\x07\x01\x00\x04\x00",
    frames: &[(0x04, b""), (0x04, b"")],
    end: FIN,
};

#[test]
fn each_reading_state_is_driven(rt: HostRuntime) {
    check_driven(&rt, &mut opened_there(), &THERE);
    check_driven(&rt, &mut opened_here(), &HERE);
    check_driven(&rt, &mut of_session(&rt, rt.alloc()), &SESSION);
    check_driven(&rt, &mut control(&rt), &CONTROL);
}

#[test]
fn each_reading_state_is_read_from_a_buffer(rt: HostRuntime) {
    check_buffered(&rt, &mut opened_there(), &THERE);
    check_buffered(&rt, &mut opened_here(), &HERE);
    check_buffered(&rt, &mut of_session(&rt, rt.alloc()), &SESSION);
    check_buffered(&rt, &mut control(&rt), &CONTROL);
}
