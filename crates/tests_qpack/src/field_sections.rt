//! Worked rows of field sections: encoding, decoding, round trips, error texts, and failed
//! allocations.
use crate::same::assert_same;
use crate::sections::{
    FaultRow, assert_come_back, assert_decoded, assert_encoded, assert_faults, assert_map,
};
use crate::texts::has_text;
use std::alloc::Global;
use std::collections::BTreeMap;
use wtp_qpack::laws::encode_and_decode;
use wtp_qpack::qpack::{Decoder, DecodingError, Encoder};

/// Pairs of names and values.
type Pairs = &'static [(&'static str, &'static str)];

/// The case, pairs, and their encoded section.
type EncodedRow = (&'static str, Pairs, &'static [u8]);

/// Pairs that are encoded.
static ENCODED: [EncodedRow; 13] = [
    ("no field", &[], b"\x00\x00"),
    ("a whole entry", &[(":method", "CONNECT")], b"\x00\x00\xcf"),
    (
        "the first entry of a name, not the whole pair",
        &[(":status", "200")],
        b"\x00\x00\x5f\x09\x82\x10\x01",
    ),
    (
        "the same, the pair further down",
        &[(":status", "100")],
        b"\x00\x00\x5f\x09\x82\x08\x01",
    ),
    (
        "the same, a value that is not shorter in the Huffman code",
        &[("access-control-allow-headers", "*")],
        b"\x00\x00\x5f\x12\x01\x2a",
    ),
    (
        "a name and another value",
        &[(":scheme", "https")],
        b"\x00\x00\x5f\x07\x84\x9d\x29\xad\x1f",
    ),
    (
        "no entry",
        &[("key1", "value1")],
        b"\x00\x00\x2b\xea\x5f\x41\x85\xee\x3a\x2d\x28\x7f",
    ),
    ("a name before all", &[("", "")], b"\x00\x00\x20\x00"),
    ("a name after all", &[("zz", "")], b"\x00\x00\x22zz\x00"),
    ("a name between two", &[("agf", "")], b"\x00\x00\x23agf\x00"),
    (
        "fields in their order",
        &[(":z", "2"), ("a", "3"), ("b", "1")],
        b"\x00\x00\x22:z\x012!a\x013!b\x011",
    ),
    (
        "a name twice",
        &[("a", "3"), ("a", "1")],
        b"\x00\x00!a\x013!a\x011",
    ),
    (
        "a request",
        &[
            (":authority", "example.com"),
            (":method", "CONNECT"),
            (":path", "/"),
            (":protocol", "webtransport"),
            (":scheme", "https"),
        ],
        b"\x00\x00\x50\x88\x2f\x91\xd3\x5d\x05\x5c\x87\xa7\xcf\xc1\x2f\x00\xb9\x5d\x87\x49\xc8\x7a\
        \x3f\x89\xf0\x58\xd3\x60\xea\x45\x67\xb1\x3f\x5f\x07\x84\x9d\x29\xad\x1f",
    ),
];

#[test]
fn encoded_fields_past_refused_memory(rt: HostRuntime) {
    for (case, pairs, section) in &ENCODED {
        assert_encoded(&rt, rt.alloc(), pairs, section, case);
    }
}

/// The case, a section, and its fields in order of their names.
type DecodedRow = (&'static str, &'static [u8], Pairs);

/// Sections that are decoded.
static DECODED: [DecodedRow; 13] = [
    ("no line", b"\x00\x00", &[]),
    (
        "a whole entry",
        b"\x00\x00\xff\x23",
        &[("x-frame-options", "sameorigin")],
    ),
    (
        "the last value of a name",
        b"\x00\x00\xd9\xd8",
        &[(":status", "103")],
    ),
    ("an empty value", b"\x00\x00\x29\x1f\x00", &[("a", "")]),
    (
        "a name reference never to be indexed",
        b"\x00\x00\x70\x00",
        &[(":authority", "")],
    ),
    (
        "a literal name never to be indexed",
        b"\x00\x00\x31\x61\x00",
        &[("a", "")],
    ),
    (
        "the greatest first integer",
        b"\xff\x80\xfe\xff\xff\xff\xff\xff\xff\xff\x01\x00",
        &[],
    ),
    (
        "twenty groups of zeros and a last one",
        b"\x00\x00\xff\x80\x80\x80\x80\x80\x80\x80\x80\x80\x80\x80\x80\x80\x80\x80\x80\x80\x80\x80\
        \x80\x00",
        &[(":status", "100")],
    ),
    (
        "a request, by name",
        b"\x00\x00\x50\x88\x2f\x91\xd3\x5d\x05\x5c\x87\xa7\xcf\xc1\x2f\x00\xb9\x5d\x87\x49\xc8\x7a\
        \x3f\x89\xf0\x58\xd3\x60\xea\x45\x67\xb1\x3f\x5f\x07\x84\x9d\x29\xad\x1f",
        &[
            (":authority", "example.com"),
            (":method", "CONNECT"),
            (":path", "/"),
            (":protocol", "webtransport"),
            (":scheme", "https"),
        ],
    ),
    (
        "names in the order of bytes",
        b"\x00\x00!b\x011!a\x013\x22:z\x012",
        &[(":z", "2"), ("a", "3"), ("b", "1")],
    ),
    (
        "a raw value that is not ASCII",
        b"\x00\x00!a\x02\xc3\xa9",
        &[("a", "\u{e9}")],
    ),
    (
        "RFC 9204, Appendix B.1",
        b"\x00\x00\x51\x0b\x2f\x69\x6e\x64\x65\x78\x2e\x68\x74\x6d\x6c",
        &[(":path", "/index.html")],
    ),
    (
        "key1, key2 and a status",
        b"\x00\x00\x24key1\x06value1\x24key2\x06value2\x5f\x09\x09not_found",
        &[
            (":status", "not_found"),
            ("key1", "value1"),
            ("key2", "value2"),
        ],
    ),
];

#[test]
fn decoded_sections_past_refused_memory(rt: HostRuntime) {
    for (case, section, fields) in &DECODED {
        assert_decoded(&rt, rt.alloc(), section, fields, *case);
    }
}

/// Sections that are rejected.
static REFUSED: [FaultRow; 24] = [
    ("nothing", b"", Some(DecodingError::UnexpectedFin)),
    (
        "no second integer",
        b"\x00",
        Some(DecodingError::UnexpectedFin),
    ),
    (
        "index 99",
        b"\x00\x00\xff\x24",
        Some(DecodingError::IndexNotfound),
    ),
    (
        "an index of the dynamic table",
        b"\x00\x00\x80",
        Some(DecodingError::DynamicNotSupported),
    ),
    (
        "an index past the base",
        b"\x00\x00\x10",
        Some(DecodingError::DynamicNotSupported),
    ),
    (
        "a name past the base",
        b"\x00\x00\x00",
        Some(DecodingError::DynamicNotSupported),
    ),
    (
        "a dynamic name, its index cut",
        b"\x00\x00\x4f",
        Some(DecodingError::DynamicNotSupported),
    ),
    (
        "a dynamic name never to be indexed",
        b"\x00\x00\x60",
        Some(DecodingError::DynamicNotSupported),
    ),
    (
        "the same with an index and a value",
        b"\x00\x00\x6f\x00",
        Some(DecodingError::DynamicNotSupported),
    ),
    (
        "a name that is not UTF-8",
        b"\x00\x00\x21\x80",
        Some(DecodingError::InvalidString),
    ),
    (
        "a first integer past 2^64 - 1",
        b"\xff\x81\xfe\xff\xff\xff\xff\xff\xff\xff\x01\x00",
        Some(DecodingError::IntegerOverflow),
    ),
    (
        "index 99 before its value",
        b"\x00\x00\x5f\x54",
        Some(DecodingError::IndexNotfound),
    ),
    (
        "index 98, no value",
        b"\x00\x00\x5f\x53",
        Some(DecodingError::UnexpectedFin),
    ),
    (
        "a length of 2^64 - 1",
        b"\x00\x00\x27\xf8\xff\xff\xff\xff\xff\xff\xff\xff\x01",
        Some(DecodingError::UnexpectedFin),
    ),
    (
        "a length of 2^64",
        b"\x00\x00\x27\xf9\xff\xff\xff\xff\xff\xff\xff\xff\x01",
        Some(DecodingError::IntegerOverflow),
    ),
    (
        "the greatest index that fits",
        b"\x00\x00\xff\x80\x80\x80\x80\x80\x80\x80\x80\x80\x01",
        Some(DecodingError::IndexNotfound),
    ),
    (
        "an index one bit above",
        b"\x00\x00\xff\x80\x80\x80\x80\x80\x80\x80\x80\x80\x02",
        Some(DecodingError::IntegerOverflow),
    ),
    (
        "an index that goes on",
        b"\x00\x00\xff\x80\x80\x80\x80\x80\x80\x80\x80\x80\x81",
        Some(DecodingError::UnexpectedFin),
    ),
    (
        "an overflow though no byte follows",
        b"\x00\x00\xff\x80\x80\x80\x80\x80\x80\x80\x80\x80\x82",
        Some(DecodingError::IntegerOverflow),
    ),
    (
        "padding of zeros",
        b"\x00\x00\x29\x00\x00",
        Some(DecodingError::InvalidString),
    ),
    (
        "padding of eight ones",
        b"\x00\x00\x29\x1f\x81\xff",
        Some(DecodingError::InvalidString),
    ),
    (
        "padding of eleven ones",
        b"\x00\x00\x29\x1f\x82\x1f\xff",
        Some(DecodingError::InvalidString),
    ),
    (
        "the word of the end of the string",
        b"\x00\x00\x29\x1f\x84\xff\xff\xff\xff",
        Some(DecodingError::InvalidString),
    ),
    (
        "a fault after a good line",
        b"\x00\x00\xd9\x10",
        Some(DecodingError::DynamicNotSupported),
    ),
];

#[test]
fn refused_sections_past_refused_memory(rt: HostRuntime) {
    assert_faults(&rt, rt.alloc(), &REFUSED);
}

/// The case, pairs, and the fields after encoding and decoding, in order of their names.
type SentRow = (&'static str, Pairs, Pairs);

/// Pairs that are encoded and decoded.
static SENT: [SentRow; 3] = [
    (
        "the last value of a name",
        &[("key1", "a"), ("key1", "b")],
        &[("key1", "b")],
    ),
    (
        "a status that is not a number",
        &[
            ("key1", "value1"),
            ("key2", "value2"),
            (":status", "not_found"),
        ],
        &[
            (":status", "not_found"),
            ("key1", "value1"),
            ("key2", "value2"),
        ],
    ),
    ("one field", &[("key1", "value1")], &[("key1", "value1")]),
];

#[test]
fn encoded_fields_come_back_past_refused_memory(rt: HostRuntime) {
    for (case, pairs, fields) in &SENT {
        assert_come_back(&rt, rt.alloc(), pairs, fields, *case);
    }
}

/// Returns the result of the law of sections, again if allocation failed.
fn law_answer(
    alloc: Global,
    pairs: &[(&str, &str)],
) -> Result<BTreeMap<String, String>, DecodingError> {
    match encode_and_decode(alloc, pairs) {
        Err(DecodingError::Memory) => encode_and_decode(alloc, pairs),
        outcome => outcome,
    }
}

/// Pairs with repeated names.
static REPEATED: [(&str, &str); 5] = [
    ("key1", "a"),
    ("key1", "b"),
    (":status", "not_found"),
    ("key2", ""),
    (":status", "404"),
];

/// The last value of each of these names, in order of the names.
static LAST: [(&str, &str); 3] = [(":status", "404"), ("key1", "b"), ("key2", "")];

#[test]
fn last_value_comes_back_past_refused_memory(rt: HostRuntime) {
    let fields = law_answer(rt.alloc(), &REPEATED).expect(&rt, "a fault");
    assert_map(&rt, &fields, &LAST, "the last value of each name");
}

#[test]
fn decoders_and_encoders_are_copied(rt: HostRuntime) {
    let (decoder, encoder) = (Decoder, Encoder);
    let copies = (decoder, encoder);
    let text = format!(in rt.alloc(); "{decoder:?} {encoder:?} {copies:?}").expect(&rt, "memory");
    assert_same(
        &rt,
        text.as_str(),
        "Decoder Encoder (Decoder, Encoder)",
        "copies",
    );
}

/// Errors and their texts.
static ERRORS: [(DecodingError, &str); 6] = [
    (
        DecodingError::UnexpectedFin,
        "end of stream reached prematurely",
    ),
    (DecodingError::IntegerOverflow, "integer overflow"),
    (DecodingError::InvalidString, "invalid string decoding"),
    (
        DecodingError::DynamicNotSupported,
        "dynamic table is not supported",
    ),
    (
        DecodingError::IndexNotfound,
        "index not found in the static table",
    ),
    (DecodingError::Memory, "no memory"),
];

#[test]
fn printed_errors_past_refused_memory(rt: HostRuntime) {
    for (error, text) in &ERRORS {
        has_text(&rt, error, text);
    }
}
