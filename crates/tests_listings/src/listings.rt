//! Listings of recorded streams.
use crate::rows::{Row, check_listing, join, whole_rows};
use std::alloc::{AllocError, Global};
use std::process::Abort;
use wt_listings::{ListKind, Listing, list_frames};

/// Streams that the peer opened, whose end is listed as the bytes that are left.
static BI_REMOTE: [Row; 8] = [
    Row {
        case: "a cut frame",
        input: b"\x00\x05a",
        text: "END 3\n",
        status: 0,
    },
    Row {
        case: "settings",
        input: b"\x04\x02\x33\x01",
        text: "FAULT FrameUnexpectedError 261\n",
        status: 2,
    },
    Row {
        case: "an unknown type alone",
        input: b"\x0a",
        text: "END 1\n",
        status: 0,
    },
    Row {
        case: "unknown, of length 65",
        input: b"\x0a\x40\x41\x00",
        text: "END 4\n",
        status: 0,
    },
    Row {
        case: "a cut unknown one",
        input: b"\x0a\x05a",
        text: "END 3\n",
        status: 0,
    },
    Row {
        case: "the largest unknown one",
        input: b"\x0a\xff\xff\xff\xff\xff\xff\xff\xff",
        text: "END 9\n",
        status: 0,
    },
    Row {
        case: "an unknown one after a frame",
        input: b"\x00\x01a\x0a\x00",
        text: "DATA 1\nEND 2\n",
        status: 0,
    },
    Row {
        case: "a cut unknown one after a frame",
        input: b"\x00\x01a\x0a\x05b",
        text: "DATA 1\nEND 3\n",
        status: 0,
    },
];

static BI_LOCAL: [Row; 8] = [
    Row {
        case: "a session",
        input: b"\x40\x41\x04\x00\x01a",
        text: "FAULT FrameUnexpectedError 261\n",
        status: 2,
    },
    Row {
        case: "nothing",
        input: b"",
        text: "END 0\n",
        status: 0,
    },
    Row {
        case: "a cut frame",
        input: b"\x00\x05a",
        text: "END 3\n",
        status: 0,
    },
    Row {
        case: "late settings",
        input: b"\x01\x02ab\x21\x00\x00\x00\x04\x00",
        text: "HEADERS 2\nEXERCISE 33 0\nDATA 0\nFAULT FrameUnexpectedError 261\n",
        status: 2,
    },
    Row {
        case: "no session",
        input: b"\x40\x41\x01",
        text: "FAULT IdError 264\n",
        status: 2,
    },
    Row {
        case: "length 4097",
        input: b"\x00\x50\x01",
        text: "FAULT ExcessiveLoad 263\n",
        status: 2,
    },
    Row {
        case: "unknown, data, and an unknown type alone",
        input: b"\x0a\x01x\x00\x00\x0a",
        text: "DATA 0\nEND 1\n",
        status: 0,
    },
    Row {
        case: "a cut type",
        input: b"\x40",
        text: "END 1\n",
        status: 0,
    },
];

static CONTROL: [Row; 8] = [
    Row {
        case: "an unknown frame between settings",
        input: b"\x04\x00\x07\x01\x00\x04\x00",
        text: "SETTINGS 0\nSETTINGS 0\nEND 0\n",
        status: 0,
    },
    Row {
        case: "data",
        input: b"\x00\x00",
        text: "FAULT FrameUnexpectedError 261\n",
        status: 2,
    },
    Row {
        case: "headers",
        input: b"\x01\x00",
        text: "FAULT FrameUnexpectedError 261\n",
        status: 2,
    },
    Row {
        case: "exercise, then a session",
        input: b"\x21\x01x\x40\x41\x04",
        text: "EXERCISE 33 1\nFAULT FrameUnexpectedError 261\n",
        status: 2,
    },
    Row {
        case: "no session",
        input: b"\x40\x41\x01",
        text: "FAULT IdError 264\n",
        status: 2,
    },
    Row {
        case: "length 4097",
        input: b"\x04\x50\x01",
        text: "FAULT ExcessiveLoad 263\n",
        status: 2,
    },
    Row {
        case: "cut settings",
        input: b"\x04\x02\x33",
        text: "END 3\n",
        status: 0,
    },
    Row {
        case: "nothing",
        input: b"",
        text: "END 0\n",
        status: 0,
    },
];

/// Asserts the listing of an input.
fn check<R: Abort + AllocGlobal>(
    rt: &R,
    kind: ListKind,
    input: &[u8],
    text: &str,
    status: u8,
    case: &str,
) {
    let listing = list_frames(rt.alloc(), kind, input).expect(rt, "memory");
    check_listing(rt, listing, text, status, case);
}

/// Asserts the listing of the input of each row.
fn check_rows<R: Abort + AllocGlobal>(rt: &R, kind: ListKind, rows: &[Row]) {
    for row in rows {
        check(rt, kind, row.input, row.text, row.status, row.case);
    }
}

#[test]
fn remote_bidirectional_streams_are_listed(rt: HostRuntime) {
    check_rows(&rt, ListKind::BiRemote, whole_rows());
    check_rows(&rt, ListKind::BiRemote, &BI_REMOTE);
}

#[test]
fn local_bidirectional_streams_are_listed(rt: HostRuntime) {
    check_rows(&rt, ListKind::BiLocal, &BI_LOCAL);
}

#[test]
fn control_streams_are_listed(rt: HostRuntime) {
    check_rows(&rt, ListKind::Control, &CONTROL);
}

/// The parts of an input on a stream that the peer opened, its listing, and the case.
type Long = (&'static [&'static [u8]], &'static str, &'static str);

/// Inputs of thousands of bytes.
static LONG: [Long; 2] = [
    (&[b"\x00\x50\x00", &[7; 4096]], "DATA 4096\nEND 0\n", "data"),
    (
        &[b"\x0a\x50\x01", &[0; 4097], b"\x00\x00"],
        "DATA 0\nEND 0\n",
        "an unknown frame",
    ),
];

/// Asserts the listing of the input of a row.
fn check_long<R: Abort + AllocGlobal>(rt: &R, row: &Long) {
    let (parts, text, word) = *row;
    let input = join(rt, parts);
    check(rt, ListKind::BiRemote, input.as_slice(), text, 0, word);
}

#[test]
fn the_longest_payloads_are_listed(rt: HostRuntime) {
    for row in &LONG {
        check_long(&rt, row);
    }
}

/// Returns the listing of an input, built again if allocation failed. A failed call keeps
/// nothing, so the next one is complete.
fn listed(alloc: Global, input: &[u8]) -> Result<Listing, AllocError> {
    match list_frames(alloc, ListKind::BiRemote, input) {
        Ok(listing) => Ok(listing),
        Err(_) => list_frames(alloc, ListKind::BiRemote, input),
    }
}

#[test]
fn refused_memory_gives_no_listing(rt: HostRuntime) {
    let input = b"\x40\x41\x04\x21\x01a\x00\x01a\x04\x00";
    let listing = listed(rt.alloc(), input).expect(&rt, "memory");
    let text = "WEBTRANSPORT 4\nEXERCISE 33 1\nDATA 1\nFAULT FrameUnexpectedError 261\n";
    check_listing(&rt, listing, text, 2, "each kind of line");
}
