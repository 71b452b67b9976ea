//! Prefixed integers (RFC 7541, section 5.1) in sections, as lengths and indices, and string
//! literals of these lengths.
use crate::same::assert_same;
use crate::sections::{FaultRow, assert_come_back, assert_decoded, assert_faults, encode, join};
use std::alloc::Global;
use std::process::Abort;
use wtp_qpack::qpack::DecodingError;

/// Letters that have the same length in the Huffman code, where each is 0xfd.
static Z: [u8; 2139] = [b'Z'; 2139];

/// Letters that have five bits in the Huffman code.
static A: [u8; 2139] = [b'a'; 2139];

/// Returns the array of the letter `a` or `Z`.
fn letters_of(letter: u8) -> &'static [u8] {
    if letter == b'a' { &A } else { &Z }
}

/// Returns a text of the letter `a` or `Z`, repeated `len` times.
fn text_of(rt: &impl Abort, letter: u8, len: usize) -> &'static str {
    let letters = letters_of(letter).get(..len).unwrap_or(b"");
    let text = str::from_utf8(letters).unwrap_or("");
    assert_same(rt, text.len(), len, "letters");
    text
}

/// A field, and its section.
struct WrittenRow {
    case: &'static str,
    /// The letter and length of the name.
    name: (u8, usize),
    /// The letter and length of the value.
    value: (u8, usize),
    /// The first bytes of the section.
    front: &'static [u8],
    /// The length of the section.
    len: usize,
}

/// Integers that are encoded.
static WRITTEN: [WrittenRow; 12] = [
    WrittenRow {
        case: "no letter",
        name: (b'Z', 0),
        value: (b'Z', 0),
        front: b"\x00\x00\x20\x00",
        len: 4,
    },
    WrittenRow {
        case: "a name of 6",
        name: (b'Z', 6),
        value: (b'Z', 0),
        front: b"\x00\x00\x26Z",
        len: 10,
    },
    WrittenRow {
        case: "all ones and an empty group",
        name: (b'Z', 7),
        value: (b'Z', 0),
        front: b"\x00\x00\x27\x00Z",
        len: 12,
    },
    WrittenRow {
        case: "a name of 10",
        name: (b'Z', 10),
        value: (b'Z', 0),
        front: b"\x00\x00\x27\x03Z",
        len: 15,
    },
    WrittenRow {
        case: "a name of 31",
        name: (b'Z', 31),
        value: (b'Z', 0),
        front: b"\x00\x00\x27\x18Z",
        len: 36,
    },
    WrittenRow {
        case: "a name of 1337",
        name: (b'Z', 1337),
        value: (b'Z', 0),
        front: b"\x00\x00\x27\xb2\x0aZ",
        len: 1343,
    },
    WrittenRow {
        case: "a code of 1337",
        name: (b'a', 2139),
        value: (b'Z', 0),
        front: b"\x00\x00\x2f\xb2\x0a\x18",
        len: 1343,
    },
    WrittenRow {
        case: "a value of 10",
        name: (b'Z', 0),
        value: (b'Z', 10),
        front: b"\x00\x00\x20\x0aZ",
        len: 14,
    },
    WrittenRow {
        case: "a value of 31",
        name: (b'Z', 0),
        value: (b'Z', 31),
        front: b"\x00\x00\x20\x1fZ",
        len: 35,
    },
    WrittenRow {
        case: "a value of 127",
        name: (b'Z', 0),
        value: (b'Z', 127),
        front: b"\x00\x00\x20\x7f\x00Z",
        len: 132,
    },
    WrittenRow {
        case: "a value of 1337",
        name: (b'Z', 0),
        value: (b'Z', 1337),
        front: b"\x00\x00\x20\x7f\xba\x09Z",
        len: 1343,
    },
    WrittenRow {
        case: "a value whose code has 1337",
        name: (b'Z', 0),
        value: (b'a', 2139),
        front: b"\x00\x00\x20\xff\xba\x09\x18",
        len: 1343,
    },
];

/// Asserts that the section of a field has these first bytes and this length.
fn assert_written(
    rt: &impl Abort,
    alloc: Global,
    field: (&str, &str),
    (front, len): (&[u8], usize),
    case: &str,
) {
    let section = encode(rt, alloc, &[field]);
    let came = section.as_slice().get(..front.len()).unwrap_or(b"");
    assert_same(rt, came, front, case);
    assert_same(rt, section.len(), len, case);
}

/// Asserts that the section of a row has its first bytes and its length, and decodes to its
/// field.
fn assert_written_and_read(rt: &impl Abort, alloc: Global, row: &WrittenRow) {
    let WrittenRow {
        case,
        name,
        value,
        front,
        len,
    } = *row;
    let field = (text_of(rt, name.0, name.1), text_of(rt, value.0, value.1));
    assert_written(rt, alloc, field, (front, len), case);
    assert_come_back(rt, alloc, &[field], &[field], case);
}

#[test]
fn written_integers_past_refused_memory(rt: HostRuntime) {
    for row in &WRITTEN {
        assert_written_and_read(&rt, rt.alloc(), row);
    }
}

/// The case, a section up to an integer with the value 1337, and a byte that follows 1337
/// times.
type FlagRow = (&'static str, &'static [u8], u8);

/// Names of 1337 bytes.
static NAMES_OF_1337: [FlagRow; 4] = [
    ("a name", b"\x00\x00\x27\xb2\x0a", b'Z'),
    ("a name in the code", b"\x00\x00\x2f\xb2\x0a", 0xfd),
    ("a name never to be indexed", b"\x00\x00\x37\xb2\x0a", b'Z'),
    ("the same in the code", b"\x00\x00\x3f\xb2\x0a", 0xfd),
];

/// Values of 1337 bytes.
static VALUES_OF_1337: [FlagRow; 6] = [
    ("a value", b"\x00\x00\x20\x7f\xba\x09", b'Z'),
    ("a value in the code", b"\x00\x00\x20\xff\xba\x09", 0xfd),
    ("never to be indexed", b"\x00\x00\x30\x7f\xba\x09", b'Z'),
    ("the same in the code", b"\x00\x00\x30\xff\xba\x09", 0xfd),
    (
        "an empty name in the code",
        b"\x00\x00\x28\x7f\xba\x09",
        b'Z',
    ),
    ("both in the code", b"\x00\x00\x38\xff\xba\x09", 0xfd),
];

/// Returns a section that contains a byte 1337 times.
fn section_of(rt: &impl Abort, alloc: Global, (front, byte, end): (&[u8], u8, &[u8])) -> Vec<u8> {
    join(rt, alloc, [front, &[byte; 1337], end])
}

/// Asserts that a section that contains a byte 1337 times decodes to this field.
fn assert_read(rt: &impl Abort, alloc: Global, row: &FlagRow, end: &[u8], field: (&str, &str)) {
    let (case, front, byte) = *row;
    let section = section_of(rt, alloc, (front, byte, end));
    assert_decoded(rt, alloc, section.as_slice(), &[field], case);
}

#[test]
fn integers_under_each_flag_past_refused_memory(rt: HostRuntime) {
    let text = text_of(&rt, b'Z', 1337);
    for row in &NAMES_OF_1337 {
        assert_read(&rt, rt.alloc(), row, b"\x00", (text, ""));
    }
    for row in &VALUES_OF_1337 {
        assert_read(&rt, rt.alloc(), row, b"", ("", text));
    }
}

/// The case, a section, and the error in its last integer. An integer of 2^64 - 1 in the
/// section prefix is not an error, since these integers are skipped.
static ANSWERS: [FaultRow; 27] = [
    ("nothing", b"", Some(DecodingError::UnexpectedFin)),
    ("no group", b"\xff", Some(DecodingError::UnexpectedFin)),
    (
        "a group that goes on",
        b"\xff\x80",
        Some(DecodingError::UnexpectedFin),
    ),
    (
        "nine groups of ones",
        &[0xff; 10],
        Some(DecodingError::UnexpectedFin),
    ),
    (
        "a long row of ones",
        &[0xff; 100],
        Some(DecodingError::IntegerOverflow),
    ),
    (
        "no second integer",
        b"\x00",
        Some(DecodingError::UnexpectedFin),
    ),
    (
        "no group of the second",
        b"\x00\x7f",
        Some(DecodingError::UnexpectedFin),
    ),
    (
        "a group of it that goes on",
        b"\x00\x7f\x80",
        Some(DecodingError::UnexpectedFin),
    ),
    (
        "no group of an index",
        b"\x00\x00\xff",
        Some(DecodingError::UnexpectedFin),
    ),
    (
        "no group of a name",
        b"\x00\x00\x5f",
        Some(DecodingError::UnexpectedFin),
    ),
    (
        "no group of a length",
        b"\x00\x00\x27",
        Some(DecodingError::UnexpectedFin),
    ),
    (
        "no group of a value",
        b"\x00\x00\x20\x7f",
        Some(DecodingError::UnexpectedFin),
    ),
    (
        "index 1337",
        b"\x00\x00\xff\xfa\x09",
        Some(DecodingError::IndexNotfound),
    ),
    (
        "name 1337",
        b"\x00\x00\x5f\xaa\x0a",
        Some(DecodingError::IndexNotfound),
    ),
    (
        "name 1337 never to be indexed",
        b"\x00\x00\x7f\xaa\x0a",
        Some(DecodingError::IndexNotfound),
    ),
    (
        "a first integer of 2^64 - 1",
        b"\xff\x80\xfe\xff\xff\xff\xff\xff\xff\xff\x01\x00",
        None,
    ),
    (
        "a first integer of 2^64",
        b"\xff\x81\xfe\xff\xff\xff\xff\xff\xff\xff\x01\x00",
        Some(DecodingError::IntegerOverflow),
    ),
    (
        "a second integer of 2^64 - 1",
        b"\x00\x7f\x80\xff\xff\xff\xff\xff\xff\xff\xff\x01",
        None,
    ),
    (
        "a second integer of 2^64",
        b"\x00\x7f\x81\xff\xff\xff\xff\xff\xff\xff\xff\x01",
        Some(DecodingError::IntegerOverflow),
    ),
    (
        "an index of 2^64 - 1",
        b"\x00\x00\xff\xc0\xff\xff\xff\xff\xff\xff\xff\xff\x01",
        Some(DecodingError::IndexNotfound),
    ),
    (
        "an index of 2^64",
        b"\x00\x00\xff\xc1\xff\xff\xff\xff\xff\xff\xff\xff\x01",
        Some(DecodingError::IntegerOverflow),
    ),
    (
        "the name of index 2^64 - 1",
        b"\x00\x00\x5f\xf0\xff\xff\xff\xff\xff\xff\xff\xff\x01",
        Some(DecodingError::IndexNotfound),
    ),
    (
        "the name of index 2^64",
        b"\x00\x00\x5f\xf1\xff\xff\xff\xff\xff\xff\xff\xff\x01",
        Some(DecodingError::IntegerOverflow),
    ),
    (
        "a name of 2^64 - 1",
        b"\x00\x00\x27\xf8\xff\xff\xff\xff\xff\xff\xff\xff\x01",
        Some(DecodingError::UnexpectedFin),
    ),
    (
        "a name of 2^64",
        b"\x00\x00\x27\xf9\xff\xff\xff\xff\xff\xff\xff\xff\x01",
        Some(DecodingError::IntegerOverflow),
    ),
    (
        "a value of 2^64 - 1",
        b"\x00\x00\x20\x7f\x80\xff\xff\xff\xff\xff\xff\xff\xff\x01",
        Some(DecodingError::UnexpectedFin),
    ),
    (
        "a value of 2^64",
        b"\x00\x00\x20\x7f\x81\xff\xff\xff\xff\xff\xff\xff\xff\x01",
        Some(DecodingError::IntegerOverflow),
    ),
];

#[test]
fn cut_and_great_integers_past_refused_memory(rt: HostRuntime) {
    assert_faults(&rt, rt.alloc(), &ANSWERS);
}

/// Lengths that fit in the prefixes of names and values, at their limits, and with one or two
/// more groups.
static LENGTHS: [usize; 18] = [
    0, 1, 6, 7, 8, 30, 31, 32, 126, 127, 128, 134, 135, 158, 159, 254, 255, 1023,
];

/// Asserts that a name and a value of `len` letters survive encoding and decoding.
fn assert_string(rt: &impl Abort, alloc: Global, letter: u8, len: usize) {
    let text = text_of(rt, letter, len);
    assert_come_back(rt, alloc, &[(text, text)], &[(text, text)], len);
}

#[test]
fn strings_past_refused_memory(rt: HostRuntime) {
    for len in &LENGTHS {
        assert_string(&rt, rt.alloc(), b'a', *len);
        assert_string(&rt, rt.alloc(), b'Z', *len);
    }
}
