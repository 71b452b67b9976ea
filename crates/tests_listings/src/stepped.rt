//! Listings of recorded streams that arrive a few bytes at a time and then end.
ghost use Rattle.std.specs.Prelude.{◌<◌};

use crate::rows::{Row, check_listing, join, whole_rows};
use crate::same::assert_same;
use std::alloc::{AllocError, Global};
use std::process::Abort;
use wt_listings::{Listing, list_stepped};

const CUT: &str = "FAULT FrameError 262\n";

static ROWS: [Row; 11] = [
    Row {
        case: "a type alone",
        input: b"\x00",
        text: CUT,
        status: 2,
    },
    Row {
        case: "a cut frame",
        input: b"\x00\x05a",
        text: CUT,
        status: 2,
    },
    Row {
        case: "settings",
        input: b"\x04\x02\x33\x01\x40\x41\x00",
        text: "FAULT FrameUnexpectedError 261\n",
        status: 2,
    },
    Row {
        case: "empty settings",
        input: b"\x04\x00\x07\x01\x00\x04\x00",
        text: "FAULT FrameUnexpectedError 261\n",
        status: 2,
    },
    Row {
        case: "a session alone",
        input: b"\x40\x41\x00",
        text: "WEBTRANSPORT 0\nEND 0\n",
        status: 0,
    },
    Row {
        case: "an unknown type alone",
        input: b"\x0a",
        text: CUT,
        status: 2,
    },
    Row {
        case: "unknown, of length 65",
        input: b"\x0a\x40\x41\x00",
        text: CUT,
        status: 2,
    },
    Row {
        case: "a cut unknown one",
        input: b"\x0a\x05a",
        text: CUT,
        status: 2,
    },
    Row {
        case: "another cut unknown one",
        input: b"\x0a\x0a\x00\x00",
        text: CUT,
        status: 2,
    },
    Row {
        case: "the largest unknown one",
        input: b"\x0a\xff\xff\xff\xff\xff\xff\xff\xff",
        text: CUT,
        status: 2,
    },
    Row {
        case: "an unknown one after a frame",
        input: b"\x00\x01a\x0a\x01x",
        text: "DATA 1\nEND 0\n",
        status: 0,
    },
];

/// Asserts the listing of an input that arrives in at most k bytes per call.
fn check_step<R: Abort + AllocGlobal>(
    rt: &R,
    k: usize,
    input: &[u8],
    text: &str,
    status: u8,
    case: &str,
)
    requires { 0 < k }
{
    let listing = list_stepped(rt.alloc(), k, input).expect(rt, "memory");
    let came = (k, listing.text.as_slice(), listing.status);
    assert_same(rt, came, (k, text.as_bytes(), status), case);
}

/// Asserts that the listing of an input is the same for each number of bytes per call.
fn check<R: Abort + AllocGlobal>(rt: &R, input: &[u8], text: &str, status: u8, case: &str) {
    for k in 1..14 {
        check_step(rt, k, input, text, status, case);
    }
}

/// Asserts the listing of the input of each row.
fn check_rows<R: Abort + AllocGlobal>(rt: &R, rows: &[Row]) {
    for row in rows {
        check(rt, row.input, row.text, row.status, row.case);
    }
}

#[test]
fn streams_are_listed_step_by_step(rt: HostRuntime) {
    check_rows(&rt, whole_rows());
    check_rows(&rt, &ROWS);
}

/// A number of bytes of an exercise frame and a late session frame, their listing, and its
/// status.
type ReadInterrupted = (usize, &'static str, u8);

/// Each offset at which the frames may end.
static STOPS: [ReadInterrupted; 13] = [
    (0, "END 0\n", 0),
    (1, CUT, 2),
    (2, CUT, 2),
    (3, CUT, 2),
    (4, CUT, 2),
    (5, CUT, 2),
    (6, CUT, 2),
    (7, CUT, 2),
    (8, CUT, 2),
    (9, "EXERCISE 33 7\nEND 0\n", 0),
    (10, "EXERCISE 33 7\nFAULT FrameError 262\n", 2),
    (11, "EXERCISE 33 7\nFAULT FrameError 262\n", 2),
    (12, "EXERCISE 33 7\nFAULT FrameError 262\n", 2),
];

/// Asserts the listing of the first bytes of an exercise frame and a late session frame.
fn check_stop<R: Abort + AllocGlobal>(rt: &R, size: usize, text: &str, status: u8) {
    let bytes = b"\x21\x07Payload\x40\x41\x00";
    let input = bytes.get(..size).expect(rt, "so many bytes");
    check(rt, input, text, status, "an end");
}

#[test]
fn streams_that_end_at_each_place_are_listed(rt: HostRuntime) {
    for (size, text, status) in &STOPS {
        check_stop(&rt, *size, text, *status);
    }
}

/// The parts of an input, its listing, and its status.
type Long = (&'static [&'static [u8]], &'static str, u8);

/// Inputs of thousands of bytes.
static LONG: [Long; 5] = [
    (&[b"\x00\x50\x00", &[0; 4096]], "DATA 4096\nEND 0\n", 0),
    (
        &[b"\x0a\x50\x00", &[0; 4096], b"\x00\x00"],
        "DATA 0\nEND 0\n",
        0,
    ),
    (
        &[b"\x0a\x50\x01", &[0; 4097], b"\x00\x00"],
        "DATA 0\nEND 0\n",
        0,
    ),
    (
        &[b"\x0a\x60\x00", &[0; 8192], b"\x00\x00"],
        "DATA 0\nEND 0\n",
        0,
    ),
    (&[b"\x0a\x50\x01", &[0; 4096]], CUT, 2),
];

/// Asserts the listing of the input of a row.
fn check_long<R: Abort + AllocGlobal>(rt: &R, row: &Long) {
    let (parts, text, status) = *row;
    let input = join(rt, parts);
    check(rt, input.as_slice(), text, status, "zeros");
}

#[test]
fn the_longest_payloads_are_listed_step_by_step(rt: HostRuntime) {
    for row in &LONG {
        check_long(&rt, row);
    }
}

/// Returns the listing of an input that arrives two bytes per call, built again if allocation
/// failed. A failed call keeps nothing, so the next one is complete.
fn listed(alloc: Global, input: &[u8]) -> Result<Listing, AllocError> {
    match list_stepped(alloc, 2, input) {
        Ok(listing) => Ok(listing),
        Err(_) => list_stepped(alloc, 2, input),
    }
}

#[test]
fn refused_memory_gives_no_stepped_listing(rt: HostRuntime) {
    let input = b"\x40\x41\x04\x21\x01a\x00\x01a\x04\x00";
    let listing = listed(rt.alloc(), input).expect(&rt, "memory");
    let text = "WEBTRANSPORT 4\nEXERCISE 33 1\nDATA 1\nFAULT FrameUnexpectedError 261\n";
    check_listing(&rt, listing, text, 2, "each kind of line");
}
