//! Field lines read one by one, as bytes: worked rows, recordings, errors, and failed
//! allocations.
use crate::same::assert_same;
use std::alloc::Global;
use std::process::Abort;
use wtp_qpack::qpack::{DecodingError, FieldBuffer, FieldLine, FieldLines};

/// The result of reading the next line: none, an error, or whether the line is the expected
/// field.
type Taken = Option<Result<bool, DecodingError>>;

/// Returns whether a line is this field.
fn is_field(line: FieldLine<'_>, name: &[u8], value: &[u8]) -> bool {
    line.name == name && line.value == value
}

/// Reads the next line.
fn take_once(
    lines: &mut FieldLines<'_>,
    room: &mut FieldBuffer,
    name: &[u8],
    value: &[u8],
) -> Taken {
    match lines.next_line(room)? {
        Ok(line) => Some(Ok(is_field(line, name, value))),
        Err(fault) => Some(Err(fault)),
    }
}

/// Reads the next line, again if allocation failed where it may fail.
fn take(
    lines: &mut FieldLines<'_>,
    room: &mut FieldBuffer,
    name: &[u8],
    value: &[u8],
    may_lack: bool,
) -> Taken {
    match take_once(lines, room, name, value) {
        Some(Err(DecodingError::Memory)) if may_lack => take_once(lines, room, name, value),
        outcome => outcome,
    }
}

/// A section, and the lines that are read from it.
struct Row {
    case: &'static str,
    section: &'static [u8],
    /// The fields up to the first error or the end.
    fields: &'static [(&'static [u8], &'static [u8])],
    /// The result after them.
    end: Taken,
}

/// Asserts that the next lines are the fields of a row, and that the result after the last line
/// repeats. `may_lack` says whether allocation may fail for a line.
fn assert_lines(
    rt: &impl Abort,
    lines: &mut FieldLines<'_>,
    room: &mut FieldBuffer,
    row: &Row,
    may_lack: bool,
) {
    for (name, value) in row.fields {
        let taken = take(lines, room, name, value, may_lack);
        assert_same(rt, taken, Some(Ok(true)), row.case);
    }
    for _ in 0..2 {
        let taken = take(lines, room, b"", b"", may_lack);
        assert_same(rt, taken, row.end, row.case);
    }
}

/// Asserts that a section has the lines of its row.
fn assert_section(rt: &impl Abort, room: &mut FieldBuffer, row: &Row, may_lack: bool) {
    match FieldLines::new(row.section) {
        Ok(mut lines) => assert_lines(rt, &mut lines, room, row, may_lack),
        Err(_) => panic!(rt; "{}: no prefix", row.case),
    }
}

/// Asserts the lines of each row, with a new buffer.
fn assert_rows(rt: &impl Abort, alloc: Global, rows: &[Row]) {
    for row in rows {
        assert_section(rt, &mut FieldBuffer::new(alloc), row, true);
    }
}

/// Valid sections. Huffman strings are those of RFC 7541, appendix C.4; indices are those of RFC
/// 9204, appendix A.
static LINES: [Row; 11] = [
    Row {
        case: "no line",
        section: b"\x00\x00",
        fields: &[],
        end: None,
    },
    Row {
        case: "a static entry",
        section: b"\x00\x00\xd9",
        fields: &[(b":status", b"200")],
        end: None,
    },
    Row {
        case: "a static name",
        section: b"\x00\x00\x50\x0bexample.com",
        fields: &[(b":authority", b"example.com")],
        end: None,
    },
    Row {
        case: "a name and a value",
        section: b"\x00\x00\x23abc\x03def",
        fields: &[(b"abc", b"def")],
        end: None,
    },
    Row {
        case: "empty texts",
        section: b"\x00\x00\x20\x00",
        fields: &[(b"", b"")],
        end: None,
    },
    Row {
        case: "both texts in the Huffman code",
        section: b"\x00\x00\x2f\x01\x25\xa8\x49\xe9\x5b\xa9\x7d\x7f\x89\x25\xa8\x49\xe9\x5b\xb8\
        \xe8\xb4\xbf",
        fields: &[(b"custom-key", b"custom-value")],
        end: None,
    },
    Row {
        case: "a Huffman text, a shorter one, and none",
        section: b"\x00\x00\x23abc\x89\x25\xa8\x49\xe9\x5b\xb8\xe8\xb4\xbf\x2a\x64\x02\x01d\x23abc\
        \x01e",
        fields: &[(b"abc", b"custom-value"), (b"302", b"d"), (b"abc", b"e")],
        end: None,
    },
    Row {
        case: "a name again, with another value",
        section: b"\x00\x00\x23abc\x01b\xd9\x23abc\x01a",
        fields: &[(b"abc", b"b"), (b":status", b"200"), (b"abc", b"a")],
        end: None,
    },
    Row {
        case: "the same line again",
        section: b"\x00\x00\xd9\xd9",
        fields: &[(b":status", b"200"), (b":status", b"200")],
        end: None,
    },
    Row {
        case: "a value that is not UTF-8",
        section: b"\x00\x00\x23abc\x01\xff",
        fields: &[(b"abc", b"\xff")],
        end: None,
    },
    Row {
        case: "a name that is not UTF-8",
        section: b"\x00\x00\x21\xff\x01a",
        fields: &[(b"\xff", b"a")],
        end: None,
    },
];

#[test]
fn lines_past_refused_memory(rt: HostRuntime) {
    assert_rows(&rt, rt.alloc(), &LINES);
}

/// Sections with an error.
static FAULTS: [Row; 10] = [
    Row {
        case: "a value is cut",
        section: b"\x00\x00\xd9\x23abc\x05de",
        fields: &[(b":status", b"200")],
        end: Some(Err(DecodingError::UnexpectedFin)),
    },
    Row {
        case: "a name is cut",
        section: b"\x00\x00\x23ab",
        fields: &[],
        end: Some(Err(DecodingError::UnexpectedFin)),
    },
    Row {
        case: "a name that is not UTF-8, and a cut value",
        section: b"\x00\x00\x21\xff\x02a",
        fields: &[],
        end: Some(Err(DecodingError::UnexpectedFin)),
    },
    Row {
        case: "an entry of the dynamic table, and no more is read",
        section: b"\x00\x00\xd9\xbf",
        fields: &[(b":status", b"200")],
        end: Some(Err(DecodingError::DynamicNotSupported)),
    },
    Row {
        case: "a name of the dynamic table",
        section: b"\x00\x00\x40\x01a",
        fields: &[],
        end: Some(Err(DecodingError::DynamicNotSupported)),
    },
    Row {
        case: "an entry past the base",
        section: b"\x00\x00\x10",
        fields: &[],
        end: Some(Err(DecodingError::DynamicNotSupported)),
    },
    Row {
        case: "a name past the base",
        section: b"\x00\x00\x00\x01a",
        fields: &[],
        end: Some(Err(DecodingError::DynamicNotSupported)),
    },
    Row {
        case: "index 99",
        section: b"\x00\x00\xff\x24",
        fields: &[],
        end: Some(Err(DecodingError::IndexNotfound)),
    },
    Row {
        case: "padding of zeros",
        section: b"\x00\x00\x23abc\x81\x00",
        fields: &[],
        end: Some(Err(DecodingError::InvalidString)),
    },
    Row {
        case: "a length above 2^64",
        section: b"\x00\x00\x23abc\x7f\xff\xff\xff\xff\xff\xff\xff\xff\xff\xff\x01",
        fields: &[],
        end: Some(Err(DecodingError::IntegerOverflow)),
    },
];

#[test]
fn faults_of_lines_past_refused_memory(rt: HostRuntime) {
    assert_rows(&rt, rt.alloc(), &FAULTS);
}

/// Sections whose first line has an error before any complete Huffman string, so the error is
/// found without allocation: lengths of Huffman strings past the end (RFC 7541, section 5.2), and
/// an index outside the static table before a Huffman value (RFC 9204, appendix A).
static FAULTS_BEFORE_TEXTS: [Row; 3] = [
    Row {
        case: "a Huffman name is cut",
        section: b"\x00\x00\x2b\x25",
        fields: &[],
        end: Some(Err(DecodingError::UnexpectedFin)),
    },
    Row {
        case: "a Huffman value is cut",
        section: b"\x00\x00\x23abc\x85\x25",
        fields: &[],
        end: Some(Err(DecodingError::UnexpectedFin)),
    },
    Row {
        case: "index 99, and a Huffman value",
        section: b"\x00\x00\x5f\x54\x82\x64\x02",
        fields: &[],
        end: Some(Err(DecodingError::IndexNotfound)),
    },
];

/// A buffer without memory is enough for these rows, even if allocation fails.
#[test]
fn faults_before_texts_need_no_memory(rt: HostRuntime) {
    let mut room = FieldBuffer::new(rt.alloc());
    assert_served(&rt, &mut room, &FAULTS_BEFORE_TEXTS, false);
}

/// Invalid section prefixes: no byte, one integer, and an incomplete integer.
static PREFIXES: [(&str, &[u8], DecodingError); 4] = [
    ("no byte", b"", DecodingError::UnexpectedFin),
    ("one integer", b"\x00", DecodingError::UnexpectedFin),
    (
        "an integer without an end",
        b"\xff\x80",
        DecodingError::UnexpectedFin,
    ),
    (
        "an integer above 2^64",
        b"\x00\x7f\xff\xff\xff\xff\xff\xff\xff\xff\xff\xff\x01",
        DecodingError::IntegerOverflow,
    ),
];

#[test]
fn prefixes_have_faults(rt: HostRuntime) {
    for (case, section, fault) in &PREFIXES {
        assert_same(&rt, FieldLines::new(section).err(), Some(*fault), case);
    }
}

/// Sections that nghttp3 1.8.0 sent, and the fields that it was given, including repeated fields
/// and an ISO 8859-1 value.
static RECORDED: [Row; 3] = [
    Row {
        case: "a response with two cookies",

        // recorded: nghttp3static-s2c-8.bin, bytes 2 to 24
        section: b"\x00\x00\xd9\x5f\x4d\x84\xae\xc3\xc6\x5f\xf4\x5e\x82\x1c\x01\x5e\x03\x62\x3d\x32\xff\
        \x14",
        fields: &[
            (b":status", b"200"),
            (b"server", b"probe"),
            (b"content-type", b"text/html; charset=utf-8"),
            (b"set-cookie", b"a=1"),
            (b"set-cookie", b"b=2"),
            (b"alt-svc", b"clear"),
        ],
        end: None,
    },
    Row {
        case: "a request with two cookies",

        // recorded: nghttp3static-c2s-24.bin, bytes 3 to 90
        section: b"\x00\x00\xcf\x2f\x00\xb9\x5d\x87\x49\xc8\x7a\x3f\x89\xf0\x58\xd3\x60\xea\x45\x67\xb1\
        \x3f\xd7\x50\x88\x2f\x91\xd3\x5d\x05\x5c\x87\xa7\xc1\x55\x82\x1c\x01\x55\x03\x62\x3d\
        \x32\x2f\x09\xf0\x95\x87\xdc\x66\xa0\x71\xd0\x55\xab\xb0\xe9\x39\x0f\x42\x3f\x03\x22\
        \x61\x22\x2f\x09\xf0\x95\x87\xdc\x66\xa0\x71\xd0\x55\xab\xb0\xe9\x39\x0f\x42\x3f\x03\
        \x22\x62\x22",
        fields: &[
            (b":method", b"CONNECT"),
            (b":protocol", b"webtransport"),
            (b":scheme", b"https"),
            (b":authority", b"example.com"),
            (b":path", b"/"),
            (b"cookie", b"a=1"),
            (b"cookie", b"b=2"),
            (b"wt-available-protocols", b"\"a\""),
            (b"wt-available-protocols", b"\"b\""),
        ],
        end: None,
    },
    Row {
        case: "a request with a value that is not UTF-8",

        // recorded: nghttp3static-c2s-16.bin, bytes 3 to 107
        section: b"\x00\x00\xcf\x2f\x00\xb9\x5d\x87\x49\xc8\x7a\x3f\x89\xf0\x58\xd3\x60\xea\x45\x67\xb1\
        \x3f\xd7\x50\x8c\x2f\x91\xd3\x5d\x05\x5c\x87\xa6\xe3\x4d\x32\xcf\x51\x86\x63\xc2\x7f\
        \xce\xd0\x07\x5f\x4b\x8e\x9d\x29\xad\x17\x18\x60\xbe\x47\x4d\x74\x15\x72\x1e\x9f\x5f\
        \x50\x87\xae\xc3\xc6\x56\x02\xb8\x3f\x7f\x45\x89\xba\x51\xd8\x5b\x14\x41\x49\x61\x53\
        \x2e\xf2\xb1\x69\xad\x3e\xbf\x00\x2d\xf2\xb5\x03\x49\xaa\x05\x77\xf6\x72\x6c\x64",
        fields: &[
            (b":method", b"CONNECT"),
            (b":protocol", b"webtransport"),
            (b":scheme", b"https"),
            (b":authority", b"example.com:4433"),
            (b":path", b"/wt?q=1"),
            (b"origin", b"https://example.com"),
            (b"user-agent", b"probe/1.0"),
            (b"authorization", b"Bearer secret"),
            (b"x-empty", b""),
            (b"x-latin", b"w\xf6rld"),
        ],
        end: None,
    },
];

/// Returns the rows of `RECORDED`. Each use of a table is proved, so the tests share this one.
fn recorded() -> &'static [Row] {
    &RECORDED
}

#[test]
fn recorded_lines_past_refused_memory(rt: HostRuntime) {
    assert_rows(&rt, rt.alloc(), recorded());
}

/// Asserts that each section has the lines of its row, with one buffer for all.
fn assert_served(rt: &impl Abort, room: &mut FieldBuffer, rows: &[Row], may_lack: bool) {
    for row in rows {
        assert_section(rt, room, row, may_lack);
    }
}

/// A buffer can be used again for sections that it already served, without allocation.
#[test]
fn a_room_serves_again_past_refused_memory(rt: HostRuntime) {
    let mut room = FieldBuffer::new(rt.alloc());
    assert_served(&rt, &mut room, recorded(), true);
    assert_served(&rt, &mut room, recorded(), false);
}
