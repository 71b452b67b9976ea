//! Listings of session requests.
use crate::rows::{REQUEST, REQUEST_LISTING, Row, check_listing, join};
use crate::same::assert_same;
use std::alloc::{AllocError, Global};
use std::process::Abort;
use wt_listings::{Listing, list_request};
use wtransport_proto::frame::FrameOwned;
use wtransport_proto::session::SessionRequest;

static ROWS: [Row; 15] = [
    Row {
        case: "nothing",
        input: b"",
        text: "END 0\n",
        status: 0,
    },
    Row {
        case: "data",
        input: b"\x00\x00",
        text: "FAULT FrameUnexpectedError 261\n",
        status: 2,
    },
    Row {
        case: "a cut section",
        input: b"\x01\x01\x00",
        text: "FAULT DecompressionError 512\n",
        status: 2,
    },
    Row {
        case: "a section without a field",
        input: b"\x01\x02\x00\x00",
        text: "FAULT MessageError 270\n",
        status: 2,
    },
    Row {
        case: "a cut frame",
        input: b"\x00\x05a",
        text: "END 3\n",
        status: 0,
    },
    Row {
        case: "cut headers",
        input: b"\x01\x02\x00",
        text: "END 3\n",
        status: 0,
    },
    Row {
        case: "an unknown type alone",
        input: b"\x0a",
        text: "END 1\n",
        status: 0,
    },
    Row {
        case: "an unknown frame, and a cut one",
        input: b"\x0a\x01x\x00",
        text: "END 4\n",
        status: 0,
    },
    Row {
        case: "no session",
        input: b"\x40\x41\x01",
        text: "FAULT IdError 264\n",
        status: 2,
    },
    Row {
        case: "length 4097",
        input: b"\x00\x50\x01",
        text: "FAULT ExcessiveLoad 263\n",
        status: 2,
    },
    Row {
        case: "settings",
        input: b"\x04\x00",
        text: "FAULT FrameUnexpectedError 261\n",
        status: 2,
    },
    Row {
        case: "a session",
        input: b"\x40\x41\x04",
        text: "FAULT FrameUnexpectedError 261\n",
        status: 2,
    },
    Row {
        case: "exercise",
        input: b"\x21\x00",
        text: "FAULT FrameUnexpectedError 261\n",
        status: 2,
    },
    Row {
        case: "a line of the dynamic table",
        input: b"\x01\x03\x00\x00\x80",
        text: "FAULT DecompressionError 512\n",
        status: 2,
    },
    Row {
        case: "what follows the frame is not looked at",
        input: b"\x01\x02\x00\x00\x04\x00",
        text: "FAULT MessageError 270\n",
        status: 2,
    },
];

/// Asserts the listing of the input of a row.
fn check_row<R: Abort + AllocGlobal>(rt: &R, row: &Row) {
    let listing = list_request(rt.alloc(), row.input).expect(rt, "memory");
    check_listing(rt, listing, row.text, row.status, row.case);
}

#[test]
fn frames_that_are_no_request(rt: HostRuntime) {
    for row in &ROWS {
        check_row(&rt, row);
    }
}

/// Asserts that an input, given in parts, lists these fields, followed by this end.
fn check_fields<R: Abort + AllocGlobal>(
    rt: &R,
    parts: &[&[u8]],
    fields: &str,
    end: &str,
    case: &str,
) {
    let input = join(rt, parts);
    let text = join(rt, &[fields.as_bytes(), end.as_bytes()]);
    let listing = list_request(rt.alloc(), input.as_slice()).expect(rt, "memory");
    let came = (listing.text.as_slice(), listing.status);
    assert_same(rt, came, (text.as_slice(), 0), case);
}

/// The five fields of the request.
const FIELDS: &str = "FIELD :authority=example.com\n\
    FIELD :method=CONNECT\n\
    FIELD :path=/\n\
    FIELD :protocol=webtransport\n\
    FIELD :scheme=https\n";

/// The request with the bytes before and after it, the last line of the listing, and what the row
/// shows.
type Around = (&'static [&'static [u8]], &'static str, &'static str);

/// The request among other frames.
static AROUND: [Around; 5] = [
    (&[&REQUEST], "END 0\n", "the request alone"),
    (
        &[&REQUEST, b"\x00\x01a"],
        "END 3\n",
        "a fault of a later frame is not looked for: data",
    ),
    (
        &[&REQUEST, b"\x04\x00"],
        "END 2\n",
        "a fault of a later frame is not looked for: settings",
    ),
    (
        &[b"\x0a\x01x", &REQUEST],
        "END 0\n",
        "after an unknown frame",
    ),
    (
        &[b"\x0a\x01x", &REQUEST, b"\x0a"],
        "END 1\n",
        "between an unknown frame and an unknown type alone",
    ),
];

#[test]
fn fields_and_what_stands_after(rt: HostRuntime) {
    for (parts, end, word) in &AROUND {
        check_fields(&rt, parts, FIELDS, end, word);
    }
}

/// Asserts that the request with this frame header and these additional field lines lists these
/// fields.
fn check_more<R: Abort + AllocGlobal>(rt: &R, head: &[u8], more: &[u8], fields: &str, case: &str) {
    let parts = [head, &REQUEST[2..], more];
    check_fields(rt, &parts, fields, "END 0\n", case);
}

#[test]
fn other_fields_in_their_order(rt: HostRuntime) {
    let more = b"\x2b\xea\x5f\x41\x85\xee\x3a\x2d\x28\x7f\x51\x01x";
    let fields = "FIELD :authority=example.com\n\
        FIELD :method=CONNECT\n\
        FIELD :path=x\n\
        FIELD :protocol=webtransport\n\
        FIELD :scheme=https\n\
        FIELD key1=value1\n";
    let word = "`key1`, as its five lines, and another value of `:path`";
    check_more(&rt, b"\x01\x35", more, fields, word);
    let fields = "FIELD !=\n\
        FIELD :authority=example.com\n\
        FIELD :method=CONNECT\n\
        FIELD :path=/\n\
        FIELD :protocol=webtransport\n\
        FIELD :scheme=https\n\
        FIELD a=\n";
    let word = "a name before all others, and one with a value of no bytes";
    check_more(&rt, b"\x01\x2e", b"\x21!\x00\x21a\x00", fields, word);
}

/// Returns the HEADERS frame of a newly built request.
fn request_frame<R: Abort + AllocGlobal>(rt: &R) -> FrameOwned {
    let request = SessionRequest::new(rt.alloc(), "https://example.com/").expect(rt, "a request");
    let headers = request.headers();
    headers.generate_frame(rt.alloc()).expect(rt, "a frame")
}

#[test]
fn a_request_that_was_made_is_listed(rt: HostRuntime) {
    let mut written = Vec::new(rt.alloc());
    request_frame(&rt).write(&mut written).expect(&rt, "memory");
    assert_same(&rt, written.as_slice(), &REQUEST, "its frame");
    let listing = list_request(rt.alloc(), written.as_slice()).expect(&rt, "memory");
    check_listing(&rt, listing, REQUEST_LISTING, 0, "its listing");
}

/// Returns the listing of the request, built again if allocation failed. A failed call keeps
/// nothing, so the next one is complete.
fn listed(alloc: Global) -> Result<Listing, AllocError> {
    match list_request(alloc, &REQUEST) {
        Ok(listing) => Ok(listing),
        Err(_) => list_request(alloc, &REQUEST),
    }
}

#[test]
fn refused_memory_gives_no_listing(rt: HostRuntime) {
    let listing = listed(rt.alloc()).expect(&rt, "memory");
    check_listing(&rt, listing, REQUEST_LISTING, 0, "the request");
}
