//! Bytes for which each clause of `run_goes_by_front` says something, read by both crates.
use std::process::Abort;
use wtp_frames::endpoint::{Endpoint, Side};
use wtp_frames::reader::{Reader, Step};
use wtp_wire::frame::Frame;

/// A frame that both crates read at the start of the bytes.
struct Instance {
    case: &'static str,
    /// Whether it is of a control stream; otherwise of a message.
    control: bool,
    /// The frames before it.
    before: &'static [u8],
    bytes: &'static [u8],
    /// The number of its type.
    number: u64,
    payload: &'static [u8],
    /// The bytes after it.
    rest: &'static [u8],
}

/// An instance of each clause.
static INSTANCES: [Instance; 4] = [
    Instance {
        case: "headers",
        control: false,
        before: b"",
        bytes: b"\x01\x02\x00\x00\x00\x01a",
        number: 0x01,
        payload: b"\x00\x00",
        rest: b"\x00\x01a",
    },
    Instance {
        case: "content",
        control: false,
        before: b"\x01\x02\x00\x00",
        bytes: b"\x00\x01a\x01\x00",
        number: 0x00,
        payload: b"a",
        rest: b"\x01\x00",
    },
    Instance {
        case: "trailers",
        control: false,
        before: b"\x01\x02\x00\x00",
        bytes: b"\x01\x01\xd2\x21\x00",
        number: 0x01,
        payload: b"\xd2",
        rest: b"\x21\x00",
    },
    Instance {
        case: "settings",
        control: true,
        before: b"",
        bytes: b"\x04\x02\x33\x01\x21\x00",
        number: 0x04,
        payload: b"\x33\x01",
        rest: b"\x21\x00",
    },
];

/// Reads the first frame by `wtp_wire`. Returns its type, the length of its payload and
/// the bytes after it.
fn read_wire<'a>(bytes: &'a [u8]) -> Option<(u64, usize, &'a [u8])> {
    let mut rest = bytes;
    match Frame::read(&mut rest) {
        Ok(Some(frame)) => Some((frame.kind().id().into_inner(), frame.payload().len(), rest)),
        Ok(None) | Err(_) => None,
    }
}

/// Asserts that `wtp_wire` reads the frame first.
fn check_wire<R: Abort>(rt: &R, row: &Instance) {
    let (number, len, rest) = read_wire(row.bytes).expect(rt, row.case);
    assert!(rt; number == row.number, "{}", row.case);
    assert!(rt; len == row.payload.len(), "{}", row.case);
    assert!(rt; rest == row.rest, "{}", row.case);
}

/// Returns a reader that is past the frames before the instance.
fn reader_at(row: &Instance) -> Reader {
    let endpoint = Endpoint::new(Side::Server);
    let mut reader = if row.control {
        Reader::control(endpoint)
    } else {
        Reader::message(endpoint)
    };
    let _before = reader.next(row.before);
    reader
}

/// Asserts that the reader of `wtp_frames` gives the frame, and goes on after it.
fn check_reader<R: Abort>(rt: &R, row: &Instance) {
    let (from, to) = match reader_at(row).next(row.bytes) {
        Step::Frame(_, from, to) | Step::Data(from, to) => (from, to),
        _ => panic!(rt; "{}: no frame", row.case),
    };
    let payload = row.bytes.get(from..to).unwrap_or(&[]);
    assert!(rt; payload == row.payload, "{}", row.case);
    let rest = row.bytes.get(to..).unwrap_or(&[]);
    assert!(rt; rest == row.rest, "{}", row.case);
}

#[test]
fn both_crates_read_each_instance(rt: HostRuntime) {
    for row in &INSTANCES {
        check_wire(&rt, row);
        check_reader(&rt, row);
    }
}
