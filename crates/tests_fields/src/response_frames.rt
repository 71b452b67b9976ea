//! Responses in frames, their fields, copies of header maps, and failed allocations.
use crate::header_maps::{assert_fields, insert, map_of};
use crate::same::assert_same;
use std::alloc::{AllocError, Global};
use std::borrow::CowSlice;
use std::process::Abort;
use wtp_core::error::{ErrorCode, Refused};
use wtp_core::varint::VarInt;
use wtp_fields::headers::Headers;
use wtp_fields::session::{SessionResponse, response_of_frame};
use wtp_wire::frame::Frame;

/// Reads the response in a frame, again if allocation failed.
fn receive(alloc: Global, frame: &Frame<'_>) -> Result<SessionResponse, Refused> {
    match response_of_frame(alloc, frame) {
        Err(Refused::Memory) => response_of_frame(alloc, frame),
        outcome => outcome,
    }
}

/// Reads the response in the HEADERS frame with this payload.
fn response_of(rt: &impl Abort, alloc: Global, payload: &[u8]) -> Result<SessionResponse, Refused> {
    assert!(rt; payload.len() < 2048);
    receive(alloc, &Frame::new_headers(CowSlice::Borrowed(payload)))
}

/// A payload, and its response.
struct ResponseRow {
    case: &'static str,
    payload: &'static [u8],
    /// The status code.
    code: u16,
    /// All fields.
    fields: &'static [(&'static str, &'static str)],
}

/// Payloads of responses. nghttp3 1.8.0 sent the last one.
static RESPONSES: [ResponseRow; 4] = [
    ResponseRow {
        case: "a static entry",
        payload: b"\x00\x00\xd9",
        code: 200,
        fields: &[(":status", "200")],
    },
    ResponseRow {
        case: "the lowest",
        payload: b"\x00\x00\x5f\x09\x03100",
        code: 100,
        fields: &[(":status", "100")],
    },
    ResponseRow {
        case: "the highest",
        payload: b"\x00\x00\x5f\x09\x03599",
        code: 599,
        fields: &[(":status", "599")],
    },
    ResponseRow {
        case: "other fields, one of them twice",

        // recorded: nghttp3static-s2c-8.bin, bytes 2 to 24
        payload: b"\x00\x00\xd9\x5f\x4d\x84\xae\xc3\xc6\x5f\xf4\x5e\x82\x1c\x01\x5e\x03\x62\x3d\x32\
        \xff\x14",
        code: 200,
        fields: &[
            (":status", "200"),
            ("server", "probe"),
            ("content-type", "text/html; charset=utf-8"),
            ("set-cookie", "b=2"),
            ("alt-svc", "clear"),
        ],
    },
];

/// Asserts the values of a response by name.
fn assert_values(rt: &impl Abort, response: &SessionResponse, fields: &[(&str, &str)], case: &str) {
    for (name, value) in fields {
        assert_same(rt, response.get(name), Some(*value), case);
    }
    assert_same(rt, response.get("absent"), None, case);
}

/// Asserts that the payload of a row decodes to a response with its status code and fields.
fn assert_response(rt: &impl Abort, alloc: Global, row: &ResponseRow) {
    let ResponseRow {
        case,
        payload,
        code,
        fields,
    } = *row;
    let response = response_of(rt, alloc, payload).expect(rt, case);
    assert_same(rt, response.code().into_inner(), code, case);
    assert_fields(rt, response.headers(), fields, case);
    assert_values(rt, &response, fields, case);
}

#[test]
fn received_responses_past_refused_memory(rt: HostRuntime) {
    for row in &RESPONSES {
        assert_response(&rt, rt.alloc(), row);
    }
}

/// The case, a payload that is not a response, and the error code.
static REFUSED_PAYLOADS: [(&str, &[u8], ErrorCode); 7] = [
    ("no section", b"\x00", ErrorCode::Decompression),
    (
        "a value that is not UTF-8",
        b"\x00\x00\xd9\x21a\x01\xff",
        ErrorCode::Decompression,
    ),
    ("no field", b"\x00\x00", ErrorCode::Message),
    ("a request", b"\x00\x00\xd1\xd7", ErrorCode::Message),
    ("99", b"\x00\x00\x5f\x09\x0299", ErrorCode::Message),
    ("600", b"\x00\x00\x5f\x09\x03600", ErrorCode::Message),
    ("no number", b"\x00\x00\x5f\x09\x02ok", ErrorCode::Message),
];

#[test]
fn refused_responses_past_refused_memory(rt: HostRuntime) {
    for (case, payload, code) in &REFUSED_PAYLOADS {
        let refused = response_of(&rt, rt.alloc(), payload).err();
        assert_same(&rt, refused, Some(Refused::Code(*code)), case);
    }
}

/// Asserts that a frame of another kind is not a response.
fn assert_unexpected(rt: &impl Abort, alloc: Global, frame: Frame<'_>, case: &str) {
    let unexpected = Some(Refused::Code(ErrorCode::FrameUnexpected));
    assert_same(rt, receive(alloc, &frame).err(), unexpected, case);
}

#[test]
fn other_frames_are_not_responses(rt: HostRuntime) {
    let data = Frame::new_data(CowSlice::Borrowed(b"\x00\x00\xd9"));
    assert_unexpected(&rt, rt.alloc(), data, "DATA");
    let settings = Frame::new_settings(CowSlice::Borrowed(b"\x00\x00\xd9"));
    assert_unexpected(&rt, rt.alloc(), settings, "SETTINGS");
    let exercise = Frame::new_exercise(VarInt::from_u32(0x21), CowSlice::Borrowed(b"\x00\x00\xd9"));
    assert_unexpected(&rt, rt.alloc(), exercise, "a reserved frame");
}

/// Returns a copy of a map, made again if allocation failed.
fn copy(rt: &impl Abort, headers: &Headers) -> Headers {
    match headers.clone() {
        Ok(second) => second,
        Err(AllocError) => headers.clone().expect(rt, "memory"),
    }
}

/// The fields of the copied map.
static FIELDS: [(&str, &str); 3] = [(":status", "200"), ("a", "1"), ("b", "2")];

/// Asserts that a copy of a map has its fields, and that a field of the copy can be changed. If
/// allocation failed, the field is inserted again.
fn assert_copied(rt: &impl Abort, first: &Headers) {
    let mut second = copy(rt, first);
    assert_fields(rt, &second, &FIELDS, "the copy");
    insert(rt, &mut second, ("a", "3"), &FIELDS);
    assert_same(rt, second.get("a"), Some("3"), "the copy changed");
}

#[test]
fn copies_past_refused_memory(rt: HostRuntime) {
    let first = map_of(&rt, rt.alloc(), &FIELDS);
    assert_copied(&rt, &first);
    assert_fields(&rt, &first, &FIELDS, "the first map");
    assert_fields(&rt, &Headers::new(rt.alloc()), &[], "an empty map");
}
