//! Payloads of header maps, errors in field sections, inserted fields, and failed allocations.
use crate::same::assert_same;
use std::alloc::{AllocError, Global};
use std::borrow::CowSlice;
use std::process::Abort;
use wtp_core::error::{ErrorCode, Refused};
use wtp_fields::headers::Headers;
use wtp_wire::frame::{Frame, FrameKind, FrameOwned, GenerateError};

/// Returns the map of these pairs.
fn map_once(alloc: Global, pairs: &[(&str, &str)]) -> Result<Headers, AllocError> {
    Headers::from_iter(alloc, pairs.iter().copied())
}

/// Returns the map of these pairs, built again if allocation failed.
pub(crate) fn map_of(rt: &impl Abort, alloc: Global, pairs: &[(&str, &str)]) -> Headers {
    match map_once(alloc, pairs) {
        Ok(headers) => headers,
        Err(AllocError) => map_once(alloc, pairs).expect(rt, "memory"),
    }
}

/// Returns the frame of a map.
fn frame_once(alloc: Global, headers: &Headers) -> Result<FrameOwned, GenerateError> {
    headers.generate_frame(alloc)
}

/// Returns the frame of a map, built again if allocation failed.
pub(crate) fn frame_of(rt: &impl Abort, alloc: Global, headers: &Headers) -> FrameOwned {
    match frame_once(alloc, headers) {
        Err(GenerateError::Memory) => frame_once(alloc, headers),
        outcome => outcome,
    }
    .expect(rt, "a frame")
}

/// Decodes the map in a payload.
fn read_once(rt: &impl Abort, alloc: Global, payload: &[u8]) -> Result<Headers, Refused> {
    assert!(rt; payload.len() < 64);
    Headers::with_frame(alloc, &Frame::new_headers(CowSlice::Borrowed(payload)))
}

/// Decodes the map in a payload, again if allocation failed.
fn read(rt: &impl Abort, alloc: Global, payload: &[u8]) -> Result<Headers, Refused> {
    match read_once(rt, alloc, payload) {
        Err(Refused::Memory) => read_once(rt, alloc, payload),
        outcome => outcome,
    }
}

/// Asserts that a map contains exactly these fields.
pub(crate) fn assert_fields(
    rt: &impl Abort,
    headers: &Headers,
    expected: &[(&str, &str)],
    case: &str,
) {
    assert_same(rt, headers.as_ref().len(), expected.len(), case);
    for (name, value) in expected {
        assert_same(rt, headers.get(name), Some(*value), case);
    }
}

/// The case, pairs, and the payload of their map. The payload decodes to exactly these
/// pairs.
type PayloadRow = (
    &'static str,
    &'static [(&'static str, &'static str)],
    &'static [u8],
);

/// Maps that are sent and read.
static PAYLOADS: [PayloadRow; 4] = [
    ("no field", &[], b"\x00\x00"),
    (
        "names with a colon first, each group by bytes",
        &[("b", "1"), (":z", "2"), ("a", "3")],
        b"\x00\x00\x22:z\x012\x21a\x013\x21b\x011",
    ),
    (
        "a status is a name of the static table",
        &[(":status", "200")],
        b"\x00\x00\x5f\x09\x82\x10\x01",
    ),
    (
        "one field, whose texts are shorter in the Huffman code",
        &[("key1", "value1")],
        b"\x00\x00\x2b\xea\x5f\x41\x85\xee\x3a\x2d\x28\x7f",
    ),
];

/// Asserts that the map of these pairs has this payload.
fn assert_sent(rt: &impl Abort, alloc: Global, pairs: &[(&str, &str)], payload: &[u8], case: &str) {
    let headers = map_of(rt, alloc, pairs);
    let frame = frame_of(rt, alloc, &headers);
    assert_same(rt, frame.kind(), FrameKind::Headers, case);
    assert_same(rt, frame.payload(), payload, case);
}

/// Asserts that the map of a row has its payload, and that the payload decodes to exactly its
/// fields.
fn assert_sent_and_read(rt: &impl Abort, alloc: Global, row: &PayloadRow) {
    let (case, pairs, payload) = *row;
    assert_sent(rt, alloc, pairs, payload, case);
    let back = read(rt, alloc, payload).expect(rt, "refused");
    assert_fields(rt, &back, pairs, case);
}

#[test]
fn payloads_past_refused_memory(rt: HostRuntime) {
    for row in &PAYLOADS {
        assert_sent_and_read(&rt, rt.alloc(), row);
    }
}

/// The case, and a payload that is not a valid field section.
static REFUSED: [(&str, &[u8]); 6] = [
    ("a cut prefix", b"\x00"),
    (
        "a prefix whose second integer goes on",
        b"\x00\xff\xff\xff\xff\xff\xff\xff\xff",
    ),
    ("a line of the dynamic table", b"\x00\x00\x80"),
    ("an index after the static table", b"\x00\x00\xff\x24"),
    ("a name that is not UTF-8", b"\x00\x00\x21\x80"),
    (
        "an integer past 2^64 - 1",
        b"\x00\x00\x27\xf9\xff\xff\xff\xff\xff\xff\xff\xff\x01",
    ),
];

#[test]
fn refused_sections_past_refused_memory(rt: HostRuntime) {
    for (case, payload) in &REFUSED {
        let fault = read(&rt, rt.alloc(), payload).err();
        assert_same(
            &rt,
            fault,
            Some(Refused::Code(ErrorCode::Decompression)),
            case,
        );
    }
}

/// Inserts a field. If allocation failed, asserts that the map is unchanged, and inserts the
/// field again.
pub(crate) fn insert(
    rt: &impl Abort,
    headers: &mut Headers,
    (name, value): (&str, &str),
    before: &[(&str, &str)],
) {
    if headers.insert(name, value) == Err(AllocError) {
        assert_fields(rt, headers, before, "nothing is changed");
        headers.insert(name, value).expect(rt, "memory");
    }
}

/// Asserts that the frame of a map decodes to these fields, in order of their names.
fn assert_comes_back(rt: &impl Abort, alloc: Global, headers: &Headers, pairs: &[(&str, &str)]) {
    let frame = frame_of(rt, alloc, headers);
    let back = read(rt, alloc, frame.payload()).expect(rt, "refused");
    assert_fields(rt, &back, pairs, "what was sent");
    for ((name, value), known) in back.as_ref().iter().zip(pairs) {
        assert_same(rt, (name.as_str(), value.as_str()), *known, "in order");
    }
}

/// Pairs, two of which have the same name.
static GIVEN: [(&str, &str); 3] = [("key1", "value0"), ("key1", "value1"), ("key2", "value2")];

/// The fields of their map.
static FIRST: [(&str, &str); 2] = [("key1", "value1"), ("key2", "value2")];

/// The fields after a value was replaced.
static CHANGED: [(&str, &str); 2] = [("key1", "other"), ("key2", "value2")];

/// The fields after a new name was inserted.
static LAST: [(&str, &str); 3] = [("key1", "other"), ("key2", "value2"), ("key3", "")];

/// Returns the map of `GIVEN`.
fn first_map(rt: &impl Abort, alloc: Global) -> Headers {
    let headers = map_of(rt, alloc, &GIVEN);
    assert_fields(rt, &headers, &FIRST, "the last value of a name");
    assert_same(rt, headers.get("key3"), None, "no such name");
    headers
}

/// Asserts the effect of a new value and of a new name on that map.
fn assert_inserts(rt: &impl Abort, headers: &mut Headers) {
    insert(rt, headers, ("key1", "other"), &FIRST);
    assert_fields(rt, headers, &CHANGED, "a new value of an old name");
    insert(rt, headers, ("key3", ""), &CHANGED);
    assert_fields(rt, headers, &LAST, "a new name");
}

#[test]
fn inserts_past_refused_memory(rt: HostRuntime) {
    let mut headers = first_map(&rt, rt.alloc());
    assert_inserts(&rt, &mut headers);
    assert_comes_back(&rt, rt.alloc(), &headers, &LAST);
}
