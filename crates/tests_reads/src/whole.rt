//! Reading frames from a buffer and from a slice, by the rules of each state.
use crate::answers::number_and_payload;
use crate::opened::{control, of_session, opened_here, opened_there};
use crate::reads::{Read, Reads, read_buffer};
use crate::same::assert_same;
use std::process::Abort;
use wtransport_proto::bytes::BufferReader;
use wtransport_proto::error::ErrorCode;

/// The expected result of one read: a frame by its type and payload.
type Wanted<'a> = Result<Option<(u64, &'a [u8])>, ErrorCode>;

/// Returns the frame that was read, by its type and payload.
fn answer_of<'a>(read: &'a Read<'_>) -> Wanted<'a> {
    match read {
        Ok(Some(frame)) => Ok(Some(number_and_payload(frame))),
        Ok(None) => Ok(None),
        Err(code) => Err(*code),
    }
}

/// Asserts the result of the next read from the buffer, and the offset of the reader after it.
fn check_buffer<R: Abort, K: Reads>(
    rt: &R,
    stream: &mut K,
    reader: &mut BufferReader<'_>,
    wanted: (Wanted<'_>, usize),
    case: &str,
) {
    let read = read_buffer(stream, reader);
    assert_same(rt, (answer_of(&read), reader.offset()), wanted, case);
}

/// Asserts the result of the next read from the slice, and the number of bytes left.
fn check_slice<R: Abort, K: Reads>(
    rt: &R,
    stream: &mut K,
    bytes: &mut &[u8],
    wanted: (Wanted<'_>, usize),
    case: &str,
) {
    let read = stream.read_slice(bytes);
    assert_same(rt, (answer_of(&read), bytes.len()), wanted, case);
}

/// The bytes of a frame, and the result of reading them. A slice then has no bytes left.
struct ReadRow {
    case: &'static str,
    bytes: &'static [u8],
    wanted: Wanted<'static>,
    /// The offset of a buffer's reader after the read.
    offset: usize,
}

/// Asserts that the stream reads a row from a buffer, and then from a slice.
fn check_both<R: Abort, K: Reads>(rt: &R, stream: &mut K, row: &ReadRow) {
    let mut reader = BufferReader::new(row.bytes);
    check_buffer(rt, stream, &mut reader, (row.wanted, row.offset), row.case);
    let mut bytes = row.bytes;
    check_slice(rt, stream, &mut bytes, (row.wanted, 0), row.case);
}

/// Asserts that the stream reads each row.
fn check_rows<R: Abort, K: Reads>(rt: &R, stream: &mut K, rows: &[ReadRow]) {
    for row in rows {
        check_both(rt, stream, row);
    }
}

/// Reads from a bidirectional stream that this end opened, or that already belongs to a session.
static OF_BOTH: [ReadRow; 5] = [
    ReadRow {
        case: "data",
        bytes: b"\x00\x01a",
        wanted: Ok(Some((0x00, b"a"))),
        offset: 3,
    },
    ReadRow {
        case: "headers",
        bytes: b"\x01\x01a",
        wanted: Ok(Some((0x01, b"a"))),
        offset: 3,
    },
    ReadRow {
        case: "settings",
        bytes: b"\x04\x00",
        wanted: Err(ErrorCode::FrameUnexpected),
        offset: 0,
    },
    ReadRow {
        case: "a session",
        bytes: b"\x40\x41\x04",
        wanted: Err(ErrorCode::FrameUnexpected),
        offset: 0,
    },
    ReadRow {
        case: "exercise",
        bytes: b"\x21\x01a",
        wanted: Ok(Some((0x21, b"a"))),
        offset: 3,
    },
];

/// Reads from a control stream.
static OF_CONTROL: [ReadRow; 5] = [
    ReadRow {
        case: "data",
        bytes: b"\x00\x01a",
        wanted: Err(ErrorCode::FrameUnexpected),
        offset: 0,
    },
    ReadRow {
        case: "headers",
        bytes: b"\x01\x01a",
        wanted: Err(ErrorCode::FrameUnexpected),
        offset: 0,
    },
    ReadRow {
        case: "settings",
        bytes: b"\x04\x00",
        wanted: Ok(Some((0x04, b""))),
        offset: 2,
    },
    ReadRow {
        case: "a session",
        bytes: b"\x40\x41\x04",
        wanted: Err(ErrorCode::FrameUnexpected),
        offset: 0,
    },
    ReadRow {
        case: "exercise",
        bytes: b"\x21\x01a",
        wanted: Ok(Some((0x21, b"a"))),
        offset: 3,
    },
];

/// The largest possible length.
static LARGEST: [ReadRow; 1] = [ReadRow {
    case: "the largest length is too big",
    bytes: b"\x00\xff\xff\xff\xff\xff\xff\xff\xff",
    wanted: Err(ErrorCode::ExcessiveLoad),
    offset: 0,
}];

#[test]
fn frames_are_read_by_the_rule(rt: HostRuntime) {
    let rows = OF_BOTH.as_slice();
    let mut local = opened_here();
    check_rows(&rt, &mut local, rows);
    assert_same(&rt, local.can_upgrade(), true, "reading does not count");
    check_rows(&rt, &mut of_session(&rt, rt.alloc()), rows);
    check_rows(&rt, &mut opened_there(), &LARGEST);
}

#[test]
fn frames_of_a_control_stream_are_read_by_the_rule(rt: HostRuntime) {
    let mut stream = control(&rt);
    assert_same(&rt, stream.can_read(), true, "frames may be read");
    check_rows(&rt, &mut stream, &OF_CONTROL);
    assert_same(&rt, stream.can_read(), true, "frames may still be read");
}

/// One read from a buffer.
struct Step {
    case: &'static str,
    /// The number of bytes that are skipped before the read.
    passed: usize,
    wanted: Wanted<'static>,
    /// The offset of the reader after the read.
    offset: usize,
}

/// The bytes of a buffer, its reads, and the number of bytes left.
type BufferRow = (&'static [u8], &'static [Step], usize);

/// Asserts the result of one read from a buffer by its row.
fn check_step<R: Abort, K: Reads>(
    rt: &R,
    stream: &mut K,
    reader: &mut BufferReader<'_>,
    step: &Step,
) {
    reader.skip(step.passed).expect(rt, "bytes to pass over");
    check_buffer(rt, stream, reader, (step.wanted, step.offset), step.case);
}

/// Asserts the results of the reads from one buffer.
fn check_steps<R: Abort, K: Reads>(rt: &R, stream: &mut K, row: &BufferRow) {
    let (bytes, steps, left) = *row;
    let mut reader = BufferReader::new(bytes);
    for step in steps {
        check_step(rt, stream, &mut reader, step);
    }
    assert_same(rt, reader.capacity(), left, "bytes left");
}

/// A stream that the peer opened; each row has a new one.
static THERE: [BufferRow; 2] = [
    (
        b"\x04\x02\x33\x01\x40\x41\x00",
        &[
            Step {
                case: "settings",
                passed: 0,
                wanted: Err(ErrorCode::FrameUnexpected),
                offset: 0,
            },
            Step {
                case: "a session after it",
                passed: 4,
                wanted: Err(ErrorCode::Frame),
                offset: 4,
            },
        ],
        3,
    ),
    (
        b"\x21\x07Payload\x40\x41\x00",
        &[
            Step {
                case: "exercise",
                passed: 0,
                wanted: Ok(Some((0x21, b"Payload"))),
                offset: 9,
            },
            Step {
                case: "a late session",
                passed: 0,
                wanted: Err(ErrorCode::Frame),
                offset: 9,
            },
        ],
        3,
    ),
];

#[test]
fn each_frame_of_a_stream_opened_there_counts(rt: HostRuntime) {
    for row in &THERE {
        check_steps(&rt, &mut opened_there(), row);
    }
}

/// Too few bytes and errors, on a stream that this end opened. The reader does not move.
static HERE: [BufferRow; 3] = [
    (
        b"\x0a\x00\x00\x05a",
        &[Step {
            case: "too few bytes",
            passed: 0,
            wanted: Ok(None),
            offset: 0,
        }],
        5,
    ),
    (
        b"\x40\x41\x01",
        &[Step {
            case: "no session",
            passed: 0,
            wanted: Err(ErrorCode::Id),
            offset: 0,
        }],
        3,
    ),
    (
        b"\x00\x50\x01",
        &[Step {
            case: "length 4097",
            passed: 0,
            wanted: Err(ErrorCode::ExcessiveLoad),
            offset: 0,
        }],
        3,
    ),
];

#[test]
fn too_few_bytes_and_faults_stay(rt: HostRuntime) {
    let mut stream = opened_here();
    for row in &HERE {
        check_steps(&rt, &mut stream, row);
    }
}

/// A control stream with an unknown frame between SETTINGS frames.
static BETWEEN: BufferRow = (
    b"\x04\x00\x07\x01\x00\x04\x00",
    &[
        Step {
            case: "settings",
            passed: 0,
            wanted: Ok(Some((0x04, b""))),
            offset: 2,
        },
        Step {
            case: "settings again",
            passed: 0,
            wanted: Ok(Some((0x04, b""))),
            offset: 7,
        },
        Step {
            case: "the end",
            passed: 0,
            wanted: Ok(None),
            offset: 7,
        },
    ],
    0,
);

#[test]
fn an_unknown_frame_between_settings_is_passed_over_whole(rt: HostRuntime) {
    check_steps(&rt, &mut control(&rt), &BETWEEN);
}

/// The result of a read, the bytes left, and the case.
type LeftRow = (Wanted<'static>, &'static [u8], &'static str);

/// Asserts the result of the next read from the slice by its row.
fn check_left<R: Abort, K: Reads>(rt: &R, stream: &mut K, bytes: &mut &[u8], row: &LeftRow) {
    let (wanted, left, case) = *row;
    check_slice(rt, stream, bytes, (wanted, left.len()), case);
    assert_same(rt, *bytes, left, case);
}

static TOO_LONG: LeftRow = (
    Err(ErrorCode::ExcessiveLoad),
    b"\x40\x41\x00\x00",
    "length 4097",
);

static FIRST: LeftRow = (Ok(Some((0x41, b""))), b"\x00", "a session");

#[test]
fn an_unknown_frame_and_a_fault_do_not_count(rt: HostRuntime) {
    let mut bytes = b"\x0a\x00\x00\x50\x01\x40\x41\x00\x00".as_slice();
    let mut stream = opened_there();
    check_left(&rt, &mut stream, &mut bytes, &TOO_LONG);
    check_left(&rt, &mut stream, &mut bytes, &FIRST);
    let read = stream.read_slice(&mut bytes);
    assert_same(&rt, answer_of(&read), Ok(None), "too few bytes");
}
