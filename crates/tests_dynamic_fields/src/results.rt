//! The error of each kind, and the example of RFC 9204, Appendix B.
use crate::reading::{Field, assert_list, decode_past_refusal, decoder_of, name_of};
use std::alloc::Global;
use std::process::Abort;
use wtp_dynamic_fields::section::{Decoded, TableSectionError};

/// What is wanted of a section.
enum Wanted {
    /// These fields, and the Required Insert Count.
    Fields(&'static [Field], u64),
    /// It waits for so many insertions.
    Blocked(u64),
    /// An error of this name, and its code.
    Fails(&'static str, Option<u64>),
}

/// A case, a section, a limit, and what is wanted.
type Row = (&'static str, &'static [u8], u64, Wanted);

const AB: Field = (b"a", b"b");

/// `QPACK_DECOMPRESSION_FAILED` (RFC 9204, section 6).
const FAILED: Option<u64> = Some(0x200);

/// Sections after the insertion of `a: b`, where one stream may wait: `3f e1 1f` sets the capacity
/// 4096, and `41 61 01 62` inserts.
static ROWS: [Row; 17] = [
    ("no line", b"\x00\x00", 0, Wanted::Fields(&[], 0)),
    (
        "RFC 9204, appendix B.1",
        b"\x00\x00\x51\x0b/index.html",
        48,
        Wanted::Fields(&[(b":path", b"/index.html")], 0),
    ),
    (
        "an entry, twice",
        b"\x02\x00\x80\x80",
        68,
        Wanted::Fields(&[AB, AB], 1),
    ),
    (
        "an entry past the limit",
        b"\x02\x00\x80\x80",
        67,
        Wanted::Fails("TooLarge", None),
    ),
    (
        "a faulty line past the limit",
        b"\x02\x00\x80\x81",
        34,
        Wanted::Fails("EntryNotFound", FAILED),
    ),
    (
        "a Huffman value",
        b"\x00\x00\x5f\x09\x82\x64\x02",
        42,
        Wanted::Fields(&[(b":status", b"302")], 0),
    ),
    (
        "no Huffman text",
        b"\x00\x00\x5e\x81\x00",
        100,
        Wanted::Fails("InvalidString", FAILED),
    ),
    ("it waits", b"\x03\x00\x80", 100, Wanted::Blocked(2)),
    (
        "no prefix",
        b"",
        100,
        Wanted::Fails("UnexpectedEnd", FAILED),
    ),
    (
        "a Base that is cut",
        b"\x02",
        100,
        Wanted::Fails("UnexpectedEnd", FAILED),
    ),
    (
        "a Base below 0",
        b"\x02\x81\x80",
        100,
        Wanted::Fails("NegativeBase", FAILED),
    ),
    (
        "a count that no table has",
        b"\xff\x02\x00",
        100,
        Wanted::Fails("InvalidInsertCount", FAILED),
    ),
    (
        "an entry where the count is 0",
        b"\x00\x01\x80",
        100,
        Wanted::Fails("EntryNotFound", FAILED),
    ),
    (
        "an index of the table that is cut, where the count is 0",
        b"\x00\x00\xbf",
        100,
        Wanted::Fails("UnexpectedEnd", FAILED),
    ),
    (
        "an index past the static table",
        b"\x00\x00\xff\x24",
        100,
        Wanted::Fails("IndexNotFound", FAILED),
    ),
    (
        "the first fault counts, and not the limit after it",
        b"\x02\x00\xff\x24\x80",
        0,
        Wanted::Fails("IndexNotFound", FAILED),
    ),
    (
        "the limit before a fault",
        b"\x02\x00\x80\xff\x24",
        33,
        Wanted::Fails("TooLarge", None),
    ),
];

/// Asserts that an error has this name and this code.
fn assert_error(
    rt: &impl Abort,
    error: TableSectionError,
    name: &str,
    code: Option<u64>,
    case: &str,
) {
    let came = name_of(error);
    assert!(rt; came == name, "{case}: {came}");
    let came = error.code().map(|code| code.number().into_inner());
    assert!(rt; came == code, "{case}: its code");
}

/// Asserts what a section is read as.
fn assert_row(rt: &impl Abort, alloc: Global, row: &Row) {
    let (case, section, limit, wanted) = row;
    let mut decoder = decoder_of(rt, alloc, 1, b"\x3f\xe1\x1f\x41a\x01b");
    let result = decode_past_refusal(alloc, &mut decoder, 0, section, *limit);
    match (result, wanted) {
        (Ok(Decoded::Fields(list, required)), Wanted::Fields(fields, count)) => {
            assert_list(rt, &list, fields, case);
            assert!(rt; required == *count, "{case}: its count");
        }
        (Ok(Decoded::Blocked(required)), Wanted::Blocked(count)) => {
            assert!(rt; required == *count, "{case}: {required}")
        }
        (Err(error), Wanted::Fails(name, code)) => assert_error(rt, error, name, *code, case),
        _ => panic!(rt; "{case}: another result"),
    }
}

#[test]
fn results_of_sections_past_refused_memory(rt: HostRuntime) {
    for row in &ROWS {
        assert_row(&rt, rt.alloc(), row);
    }
}

/// As many streams wait as may: another may not, and the first may go on to wait.
#[test]
fn streams_that_wait_past_refused_memory(rt: HostRuntime) {
    let mut decoder = decoder_of(&rt, rt.alloc(), 1, b"");
    for stream in [0, 0] {
        match decode_past_refusal(rt.alloc(), &mut decoder, stream, b"\x02\x00\x80", 100) {
            Ok(Decoded::Blocked(1)) => (),
            _ => panic!(&rt; "it does not wait"),
        }
    }
    match decode_past_refusal(rt.alloc(), &mut decoder, 4, b"\x02\x00\x80", 100) {
        Err(error) => assert_error(&rt, error, "TooManyBlocked", FAILED, "one stream more"),
        Ok(_) => panic!(&rt; "one stream more may wait"),
    }
}
