//! Shared parts of the tests: rows of listings, a request, and inputs that are joined from parts.
use crate::same::assert_same;
use std::process::Abort;
use wt_listings::Listing;

/// An input, and its listing.
pub struct Row {
    pub case: &'static str,
    pub input: &'static [u8],
    pub text: &'static str,
    pub status: u8,
}

/// Streams that the peer opened, which are listed alike from a buffer and step by step.
static WHOLE: [Row; 9] = [
    Row {
        case: "a session, then data",
        input: b"\x40\x41\x04\x00\x01a",
        text: "WEBTRANSPORT 4\nDATA 1\nEND 0\n",
        status: 0,
    },
    Row {
        case: "nothing",
        input: b"",
        text: "END 0\n",
        status: 0,
    },
    Row {
        case: "a late session",
        input: b"\x21\x07Payload\x40\x41\x00",
        text: "EXERCISE 33 7\nFAULT FrameError 262\n",
        status: 2,
    },
    Row {
        case: "length 4097",
        input: b"\x00\x50\x01",
        text: "FAULT ExcessiveLoad 263\n",
        status: 2,
    },
    Row {
        case: "no session",
        input: b"\x40\x41\x01",
        text: "FAULT IdError 264\n",
        status: 2,
    },
    Row {
        case: "headers, then data",
        input: b"\x01\x02ab\x00\x00",
        text: "HEADERS 2\nDATA 0\nEND 0\n",
        status: 0,
    },
    Row {
        case: "unknown and empty",
        input: b"\x0a\x00\x00\x01a",
        text: "DATA 1\nEND 0\n",
        status: 0,
    },
    Row {
        case: "unknown, then a session",
        input: b"\x0a\x01x\x40\x41\x00",
        text: "WEBTRANSPORT 0\nEND 0\n",
        status: 0,
    },
    Row {
        case: "two unknown ones",
        input: b"\x02\x00\x06\x01x\x00\x01a",
        text: "DATA 1\nEND 0\n",
        status: 0,
    },
];

/// Returns the rows of `WHOLE`, for each test that uses them.
pub fn whole_rows() -> &'static [Row] {
    &WHOLE
}

/// The HEADERS frame of the request for `https://example.com/`.
pub const REQUEST: [u8; 42] =
    *b"\x01\x28\x00\x00\x50\x88\x2f\x91\xd3\x5d\x05\x5c\x87\xa7\xcf\xc1\x2f\x00\xb9\x5d\x87\x49\
    \xc8\x7a\x3f\x89\xf0\x58\xd3\x60\xea\x45\x67\xb1\x3f\x5f\x07\x84\x9d\x29\xad\x1f";

/// The listing of that request, with its five fields.
pub const REQUEST_LISTING: &str = "FIELD :authority=example.com\n\
    FIELD :method=CONNECT\n\
    FIELD :path=/\n\
    FIELD :protocol=webtransport\n\
    FIELD :scheme=https\n\
    END 0\n";

/// Asserts the text and the status of a listing.
pub fn check_listing<R: Abort>(rt: &R, listing: Listing, text: &str, status: u8, case: &str) {
    let came = (listing.text.as_slice(), listing.status);
    assert_same(rt, came, (text.as_bytes(), status), case);
}

/// Returns the concatenation of the parts.
pub fn join<R: Abort + AllocGlobal>(rt: &R, parts: &[&[u8]]) -> Vec<u8> {
    let mut whole = Vec::new(rt.alloc());
    for part in parts {
        whole.extend_from_slice(part).expect(rt, "memory");
    }
    whole
}
