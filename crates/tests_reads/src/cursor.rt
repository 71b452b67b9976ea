//! Reading frames from bytes that the caller holds, split in every way.
use crate::answers::{PollAnswer, number_and_payload, pad};
use crate::opened::{control, of_session, opened_here, opened_there};
use crate::reads::poll;
use crate::same::assert_same;
use std::alloc::Global;
use std::process::Abort;
use wtransport_proto::bytes::{IoReadError as Fault, Polled};
use wtransport_proto::error::ErrorCode;
use wtransport_proto::frame::{Frame, FrameReading};
use wtransport_proto::stream::{CursorStep, FrameCursor, IoReadError, ReadsFrames, StreamRole};

/// How reading a stream ends: without an error, or with the code of its first error. An end
/// inside a frame is the error `Frame` (RFC 9114, section 7.1).
type Ending = Result<(), ErrorCode>;

/// A frame by its type and payload, or how the stream ends.
type Next<'a> = Result<(u64, &'a [u8]), Ending>;

/// The bytes of a stream, and what is read from them.
#[derive(Drop)]
struct Row<'a> {
    case: &'a str,
    bytes: &'a [u8],
    /// The frames by type and payload.
    frames: &'a [(u64, &'a [u8])],
    /// How the stream ends.
    ending: Ending,
}

/// The bytes of a stream, some of which have arrived, and some of those are consumed.
#[derive(Drop)]
struct Coming<'a> {
    bytes: &'a [u8],
    come: usize,
    consumed: usize,
    cursor: FrameCursor,
}

impl<'a> Coming<'a> {
    /// Creates a stream from which no byte has arrived.
    fn new(bytes: &'a [u8], role: StreamRole) -> Self {
        Coming {
            bytes,
            come: 0,
            consumed: 0,
            cursor: FrameCursor::new(role),
        }
    }

    /// Returns the bytes that have arrived and are not consumed.
    fn held(&self) -> &'a [u8] {
        self.bytes.get(self.consumed..self.come).unwrap_or(&[])
    }

    /// Calls the cursor once. Returns a frame by its type and payload, an error, or nothing.
    fn step(&mut self) -> Option<Next<'a>> {
        let held = self.held();
        match self.cursor.next(held) {
            CursorStep::Frame(place) => {
                self.consumed = self.consumed.saturating_add(place.end);
                Some(Ok((place.kind.id().into_inner(), place.payload(held))))
            }
            CursorStep::Fault(code) => Some(Err(Err(code))),
            CursorStep::More(n) => {
                self.consumed = self.consumed.saturating_add(n);
                None
            }
        }
    }

    /// Receives up to `size` more bytes. If all have arrived, returns how the stream ends.
    fn receive(&mut self, size: usize) -> Option<Ending> {
        if self.come >= self.bytes.len() {
            return Some(self.cursor.finish(self.held()));
        }
        self.come = self.come.saturating_add(size).min(self.bytes.len());
        None
    }

    /// Returns the next frame, or how the stream ends. At most `size` bytes arrive at a time.
    fn next<R: Abort>(&mut self, rt: &R, size: usize) -> Next<'a> {
        for _turn in 0..10000 {
            if let Some(found) = self.step() {
                return found;
            }
            assert_same(rt, self.held().len() <= 4111, true, "few bytes are held");
            if let Some(ending) = self.receive(size) {
                return Err(ending);
            }
        }
        Err(Err(ErrorCode::NoError))
    }

    /// Asserts the next frame, or how the stream ends.
    fn check<R: Abort>(&mut self, rt: &R, size: usize, wanted: Next<'_>, case: &str) {
        assert_same(rt, (self.next(rt, size), size), (wanted, size), case);
    }
}

/// Asserts the frames and the end of a row whose bytes arrive at most `size` at a time.
fn check_cut<R: Abort>(rt: &R, role: StreamRole, row: &Row<'_>, size: usize) {
    let mut coming = Coming::new(row.bytes, role);
    for frame in row.frames {
        coming.check(rt, size, Ok(*frame), row.case);
    }
    coming.check(rt, size, Err(row.ending), row.case);
}

/// Asserts the frames and the end of each row, for pieces of each size.
fn check_rows<R: Abort>(rt: &R, role: StreamRole, rows: &[Row<'_>]) {
    for row in rows {
        for size in 1..=row.bytes.len() {
            check_cut(rt, role, row, size);
        }
    }
}

/// Returns the result of one poll as a frame or an end, or a sentinel that matches no row if it
/// is neither.
fn next_of(answered: &PollAnswer) -> Next<'_> {
    match answered {
        Polled::Ready(Ok(frame)) => Ok(number_and_payload(frame)),
        Polled::Ready(Err(IoReadError::H3(code))) => Err(Err(*code)),
        Polled::Ready(Err(IoReadError::IO(Fault::ImmediateFin))) => Err(Ok(())),
        _ => Err(Err(ErrorCode::NoError)),
    }
}

/// Returns the result of the next poll that neither skipped a frame nor failed to allocate.
fn poll_next<K: ReadsFrames>(
    stream: &mut K,
    reading: &mut FrameReading,
    bytes: &mut &[u8],
) -> PollAnswer {
    for _turn in 0..20 {
        match poll(stream, reading, bytes) {
            Polled::Again | Polled::NoMemory => {}
            answered => return answered,
        }
    }
    Polled::Pending
}

/// Asserts the next polled frame, or how the stream ends.
fn check_next<R: Abort, K: ReadsFrames>(
    rt: &R,
    stream: &mut K,
    reading: &mut FrameReading,
    bytes: &mut &[u8],
    wanted: Next<'_>,
    case: &str,
) {
    let answered = poll_next(stream, reading, bytes);
    assert_same(rt, next_of(&answered), wanted, case);
}

/// Asserts that polling the stream reads the frames of a row, and then its end.
fn check_polled<R: Abort + AllocGlobal, K: ReadsFrames>(rt: &R, stream: &mut K, row: &Row<'_>) {
    let mut bytes = row.bytes;
    let mut reading = Frame::read_async(rt.alloc());
    for frame in row.frames {
        check_next(rt, stream, &mut reading, &mut bytes, Ok(*frame), row.case);
    }
    let ending = Err(row.ending);
    check_next(rt, stream, &mut reading, &mut bytes, ending, row.case);
}

/// Asserts that polling the stream reads each row.
fn check_polled_rows<R: Abort + AllocGlobal, K: ReadsFrames>(
    rt: &R,
    stream: &mut K,
    rows: &[Row<'_>],
) {
    for row in rows {
        check_polled(rt, stream, row);
    }
}

/// A stream that the peer opened. A session frame may come first, but not after another frame.
static OPENED_THERE: [Row<'static>; 16] = [
    Row {
        case: "data",
        bytes: b"\x00\x01a",
        frames: &[(0x00, b"a")],
        ending: Ok(()),
    },
    Row {
        case: "headers and data",
        bytes: b"\x01\x01a\x00\x00",
        frames: &[(0x01, b"a"), (0x00, b"")],
        ending: Ok(()),
    },
    Row {
        case: "settings",
        bytes: b"\x04\x00",
        frames: &[],
        ending: Err(ErrorCode::FrameUnexpected),
    },
    Row {
        case: "a session",
        bytes: b"\x40\x41\x04",
        frames: &[(0x41, b"")],
        ending: Ok(()),
    },
    Row {
        case: "exercise",
        bytes: b"\x21\x01a",
        frames: &[(0x21, b"a")],
        ending: Ok(()),
    },
    Row {
        case: "a session after an unknown frame",
        bytes: b"\x0a\x03\x00\x00\x00\x40\x41\x04",
        frames: &[(0x41, b"")],
        ending: Ok(()),
    },
    Row {
        case: "a session after data",
        bytes: b"\x00\x00\x40\x41\x04",
        frames: &[(0x00, b"")],
        ending: Err(ErrorCode::Frame),
    },
    Row {
        case: "a second session",
        bytes: b"\x40\x41\x00\x40\x41\x00",
        frames: &[(0x41, b"")],
        ending: Err(ErrorCode::Frame),
    },
    Row {
        case: "a number that is none",
        bytes: b"\x40\x41\x01",
        frames: &[],
        ending: Err(ErrorCode::Id),
    },
    Row {
        case: "length 4097",
        bytes: b"\x00\x50\x01",
        frames: &[],
        ending: Err(ErrorCode::ExcessiveLoad),
    },
    Row {
        case: "the largest length",
        bytes: b"\x00\xff\xff\xff\xff\xff\xff\xff\xff",
        frames: &[],
        ending: Err(ErrorCode::ExcessiveLoad),
    },
    Row {
        case: "long encodings",
        bytes: b"\xc0\x00\x00\x00\x00\x00\x00\x00\x80\x00\x00\x02ab\x00\x01c",
        frames: &[(0x00, b"ab"), (0x00, b"c")],
        ending: Ok(()),
    },
    Row {
        case: "an end in a payload",
        bytes: b"\x00\x02a",
        frames: &[],
        ending: Err(ErrorCode::Frame),
    },
    Row {
        case: "an end in a number",
        bytes: b"\x00\x00\x40",
        frames: &[(0x00, b"")],
        ending: Err(ErrorCode::Frame),
    },
    Row {
        case: "an end in an unknown frame",
        bytes: b"\x0a\x02a",
        frames: &[],
        ending: Err(ErrorCode::Frame),
    },
    Row {
        case: "unknown frames alone",
        bytes: b"\x0a\x02ab\x0a\x00",
        frames: &[],
        ending: Ok(()),
    },
];

/// Returns the rows of `OPENED_THERE`. Each use of a table is proved, so the tests share this
/// one.
fn rows_there() -> &'static [Row<'static>] {
    &OPENED_THERE
}

#[test]
fn a_stream_opened_there_is_read_however_cut(rt: HostRuntime) {
    check_rows(&rt, StreamRole::BiRemote, rows_there());
}

#[test]
fn a_stream_opened_there_is_polled_so(rt: HostRuntime) {
    for row in rows_there() {
        check_polled(&rt, &mut opened_there(), row);
    }
}

/// A bidirectional stream that this end opened, or that already belongs to a session.
static OPENED_HERE: [Row<'static>; 5] = [
    Row {
        case: "headers, data and exercise",
        bytes: b"\x01\x01a\x00\x01b\x21\x01c",
        frames: &[(0x01, b"a"), (0x00, b"b"), (0x21, b"c")],
        ending: Ok(()),
    },
    Row {
        case: "settings",
        bytes: b"\x04\x00",
        frames: &[],
        ending: Err(ErrorCode::FrameUnexpected),
    },
    Row {
        case: "a session",
        bytes: b"\x40\x41\x04",
        frames: &[],
        ending: Err(ErrorCode::FrameUnexpected),
    },
    Row {
        case: "no session",
        bytes: b"\x40\x41\x01",
        frames: &[],
        ending: Err(ErrorCode::Id),
    },
    Row {
        case: "length 4097",
        bytes: b"\x00\x50\x01",
        frames: &[],
        ending: Err(ErrorCode::ExcessiveLoad),
    },
];

/// Returns the rows of `OPENED_HERE`, for each test that uses them.
fn rows_here() -> &'static [Row<'static>] {
    &OPENED_HERE
}

#[test]
fn streams_opened_here_are_read_however_cut(rt: HostRuntime) {
    check_rows(&rt, StreamRole::BiLocal, rows_here());
    check_rows(&rt, StreamRole::Session, rows_here());
}

#[test]
fn streams_opened_here_are_polled_so(rt: HostRuntime) {
    check_polled_rows(&rt, &mut opened_here(), rows_here());
    check_polled_rows(&rt, &mut of_session(&rt, rt.alloc()), rows_here());
}

/// A control stream that the peer opened, after its type.
static CONTROL: [Row<'static>; 6] = [
    Row {
        case: "settings, an unknown frame and exercise",
        bytes: b"\x04\x02\x33\x01\x07\x01\x00\x21\x00",
        frames: &[(0x04, b"\x33\x01"), (0x21, b"")],
        ending: Ok(()),
    },
    Row {
        case: "data",
        bytes: b"\x00\x00",
        frames: &[],
        ending: Err(ErrorCode::FrameUnexpected),
    },
    Row {
        case: "headers",
        bytes: b"\x01\x00",
        frames: &[],
        ending: Err(ErrorCode::FrameUnexpected),
    },
    Row {
        case: "a session",
        bytes: b"\x40\x41\x04",
        frames: &[],
        ending: Err(ErrorCode::FrameUnexpected),
    },
    Row {
        case: "no session",
        bytes: b"\x40\x41\x01",
        frames: &[],
        ending: Err(ErrorCode::Id),
    },
    Row {
        case: "length 4097",
        bytes: b"\x04\x50\x01",
        frames: &[],
        ending: Err(ErrorCode::ExcessiveLoad),
    },
];

/// Returns the rows of `CONTROL`, for each test that uses them.
fn rows_of_control() -> &'static [Row<'static>] {
    &CONTROL
}

#[test]
fn a_control_stream_is_read_however_cut(rt: HostRuntime) {
    check_rows(&rt, StreamRole::UniRemote, rows_of_control());
}

#[test]
fn a_control_stream_is_polled_so(rt: HostRuntime) {
    check_polled_rows(&rt, &mut control(&rt), rows_of_control());
}

/// The numbers of bytes that arrive at a time.
static SIZES: [usize; 9] = [1, 2, 7, 100, 4096, 4111, 4999, 5003, 9105];

/// Returns an unknown frame of 5000 bytes, a DATA frame of 4096, and a HEADERS frame of one.
fn long_bytes<R: Abort>(rt: &R, alloc: Global) -> Vec<u8> {
    let mut bytes = pad(rt, alloc, b"\x0a\x53\x88", 5003);
    bytes
        .extend_from_slice(b"\x00\x50\x00")
        .expect(rt, "memory");
    bytes.resize(9102, 7).expect(rt, "memory");
    bytes.extend_from_slice(b"\x01\x01a").expect(rt, "memory");
    bytes
}

#[test]
fn long_frames_are_read_however_cut(rt: HostRuntime) {
    let bytes = long_bytes(&rt, rt.alloc());
    let payload = bytes.get(5006..9102).expect(&rt, "a payload");
    let frames = [(0x00, payload), (0x01, b"a".as_slice())];
    let row = Row {
        case: "unknown, data, headers",
        bytes: &bytes,
        frames: &frames,
        ending: Ok(()),
    };
    for size in &SIZES {
        check_cut(&rt, StreamRole::BiRemote, &row, *size);
    }
}
