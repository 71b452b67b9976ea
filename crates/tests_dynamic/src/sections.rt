//! Sections that refer to the dynamic table: the lines of each form, counts that wrap, sections
//! that wait, and the fault of each kind.
use crate::streams::{Field, assert_fields, read_cut, section_fault};
use std::alloc::Global;
use std::process::Abort;
use wtp_dynamic::answer::{Answer, decode};
use wtp_dynamic::section::is_never_indexed;
use wtp_dynamic::table::DynamicTable;

/// The case, a section, and what is answered.
type Row = (&'static str, &'static [u8], Wanted);

/// What is answered for a section.
enum Wanted {
    Fields(&'static [Field]),
    Blocked(u64),
    Fault(&'static str),
}

const AB: Field = (b"a", b"b");

const AC: Field = (b"a", b"c");

const CD: Field = (b"c", b"d");

/// Sections after the insertion of `a: b`, with a limit of 4096: `2 * MaxEntries` is 256.
static SECTIONS: [Row; 39] = [
    ("no line", b"\x00\x00", Wanted::Fields(&[])),
    (
        "an entry before the Base",
        b"\x02\x00\x80",
        Wanted::Fields(&[AB]),
    ),
    (
        "an entry past the Base",
        b"\x02\x80\x10",
        Wanted::Fields(&[AB]),
    ),
    (
        "the name of an entry before the Base",
        b"\x02\x00\x40\x01c",
        Wanted::Fields(&[AC]),
    ),
    (
        "the same, never to be indexed",
        b"\x02\x00\x60\x01c",
        Wanted::Fields(&[AC]),
    ),
    (
        "the name of an entry past the Base",
        b"\x02\x80\x00\x01c",
        Wanted::Fields(&[AC]),
    ),
    (
        "the same, never to be indexed",
        b"\x02\x80\x08\x01c",
        Wanted::Fields(&[AC]),
    ),
    (
        "a static entry",
        b"\x00\x00\xc1",
        Wanted::Fields(&[(b":path", b"/")]),
    ),
    (
        "the name of a static entry",
        b"\x00\x00\x50\x01c",
        Wanted::Fields(&[(b":authority", b"c")]),
    ),
    (
        "a name and a value",
        b"\x00\x00\x21a\x01b",
        Wanted::Fields(&[AB]),
    ),
    (
        "the same in the Huffman code",
        b"\x00\x00\x29\x1f\x81\x8f",
        Wanted::Fields(&[AB]),
    ),
    (
        "a Base past the count",
        b"\x02\x05\x85",
        Wanted::Fields(&[AB]),
    ),
    (
        "lines of all forms",
        b"\x02\x00\x80\xc1\x40\x01c\x21a\x01b",
        Wanted::Fields(&[AB, (b":path", b"/"), AC, AB]),
    ),
    ("one insertion too few", b"\x03\x00\x80", Wanted::Blocked(2)),
    (
        "the most insertions too few",
        b"\x82\x00",
        Wanted::Blocked(129),
    ),
    (
        "a line with a fault that is not read yet",
        b"\x03\x00\xff",
        Wanted::Blocked(2),
    ),
    ("no byte", b"", Wanted::Fault("UnexpectedEnd")),
    ("no Base", b"\x02", Wanted::Fault("UnexpectedEnd")),
    (
        "a Base below 0 without insertions",
        b"\x00\x80",
        Wanted::Fault("NegativeBase"),
    ),
    ("a Base below 0", b"\x02\x81", Wanted::Fault("NegativeBase")),
    (
        "a count of 0 that is not encoded as 0",
        b"\x01\x00",
        Wanted::Fault("InvalidInsertCount"),
    ),
    (
        "a count past the most entries",
        b"\x83\x00",
        Wanted::Fault("InvalidInsertCount"),
    ),
    (
        "a number above twice the most entries",
        b"\xff\x02\x00",
        Wanted::Fault("InvalidInsertCount"),
    ),
    (
        "a count of 2^64",
        b"\xff\x81\xfe\xff\xff\xff\xff\xff\xff\xff\x01\x00",
        Wanted::Fault("IntegerOverflow"),
    ),
    (
        "a Base of 2^64",
        b"\x02\x7f\x80\xff\xff\xff\xff\xff\xff\xff\xff\x01\x80",
        Wanted::Fault("IntegerOverflow"),
    ),
    (
        "an entry before the first",
        b"\x02\x00\x81",
        Wanted::Fault("EntryNotFound"),
    ),
    (
        "an entry past the count",
        b"\x02\x80\x11",
        Wanted::Fault("EntryNotFound"),
    ),
    (
        "a name past the count",
        b"\x02\x80\x01\x01c",
        Wanted::Fault("EntryNotFound"),
    ),
    (
        "an entry where none is required",
        b"\x00\x01\x80",
        Wanted::Fault("EntryNotFound"),
    ),
    (
        "an entry at 2^64",
        b"\x02\x00\x1f\xf0\xff\xff\xff\xff\xff\xff\xff\xff\x01",
        Wanted::Fault("EntryNotFound"),
    ),
    (
        "the static index 99",
        b"\x00\x00\xff\x24",
        Wanted::Fault("IndexNotFound"),
    ),
    (
        "the same, before a value",
        b"\x00\x00\x5f\x54",
        Wanted::Fault("IndexNotFound"),
    ),
    (
        "an index of 2^64",
        b"\x00\x00\xff\xc1\xff\xff\xff\xff\xff\xff\xff\xff\x01",
        Wanted::Fault("IntegerOverflow"),
    ),
    (
        "a cut index",
        b"\x02\x00\xff",
        Wanted::Fault("UnexpectedEnd"),
    ),
    (
        "a cut name",
        b"\x00\x00\x22a",
        Wanted::Fault("UnexpectedEnd"),
    ),
    ("no value", b"\x02\x00\x40", Wanted::Fault("UnexpectedEnd")),
    (
        "a cut value",
        b"\x02\x00\x40\x02c",
        Wanted::Fault("UnexpectedEnd"),
    ),
    (
        "a value with padding of zeros",
        b"\x02\x00\x40\x81\x18",
        Wanted::Fault("InvalidString"),
    ),
    (
        "a name with padding of zeros",
        b"\x00\x00\x29\x18\x00",
        Wanted::Fault("InvalidString"),
    ),
];

/// Sections after three insertions, of which `c: d` and `a: b` are left, with a limit of 68:
/// `2 * MaxEntries` is 4.
static WRAPPED: [Row; 8] = [
    ("the latest entry", b"\x04\x00\x80", Wanted::Fields(&[AB])),
    ("the oldest entry", b"\x04\x00\x81", Wanted::Fields(&[CD])),
    (
        "one insertion fewer",
        b"\x03\x00\x80",
        Wanted::Fields(&[CD]),
    ),
    ("one insertion more", b"\x01\x00", Wanted::Blocked(4)),
    ("two insertions more", b"\x02\x00", Wanted::Blocked(5)),
    (
        "no such number",
        b"\x05\x00",
        Wanted::Fault("InvalidInsertCount"),
    ),
    (
        "an entry that was evicted",
        b"\x04\x00\x82",
        Wanted::Fault("EntryNotFound"),
    ),
    (
        "an entry that is not required",
        b"\x03\x01\x80",
        Wanted::Fault("EntryNotFound"),
    ),
];

/// Sections without a table.
static EMPTY: [Row; 3] = [
    (
        "no insertion",
        b"\x00\x00\xc1",
        Wanted::Fields(&[(b":path", b"/")]),
    ),
    ("a count", b"\x01\x00", Wanted::Fault("InvalidInsertCount")),
    ("an entry", b"\x00\x00\x80", Wanted::Fault("EntryNotFound")),
];

/// Asserts what is answered for a section.
fn assert_row(rt: &impl Abort, alloc: Global, table: &DynamicTable, row: &Row) {
    let (case, section, wanted) = row;
    match wanted {
        Wanted::Fields(fields) => assert_fields(rt, alloc, table, section, fields, case),
        Wanted::Blocked(count) => match decode(alloc, table, section) {
            Ok(Answer::Blocked(required)) => assert!(rt; required == *count, "{case}: {required}"),
            _ => panic!(rt; "{case}: not blocked"),
        },
        Wanted::Fault(name) => match decode(alloc, table, section) {
            Ok(_) => panic!(rt; "{case}: no fault"),
            Err(fault) => {
                let fault = section_fault(fault);
                assert!(rt; fault == *name, "{case}: {fault}");
            }
        },
    }
}

/// Asserts it of each row, after a stream.
fn assert_rows(rt: &impl Abort, alloc: Global, limit: u64, stream: &[u8], rows: &[Row]) {
    let (stream, fault) = read_cut(alloc, limit, stream, 0);
    assert!(rt; fault == "", "{fault}");
    for row in rows {
        assert_row(rt, alloc, stream.table(), row);
    }
}

#[test]
fn answers_for_sections(rt: HostRuntime) {
    assert_rows(&rt, rt.alloc(), 4096, b"\x3f\xe1\x1f\x41a\x01b", &SECTIONS);
    let wrapped = b"\x3f\x25\x41a\x01b\x41c\x01d\x01";
    assert_rows(&rt, rt.alloc(), 68, wrapped, &WRAPPED);
    assert_rows(&rt, rt.alloc(), 0, b"\x20", &EMPTY);
}

/// What a line shows, the line, and whether it is never indexed.
static NEVER: [(&str, &[u8], bool); 12] = [
    ("no byte", b"", false),
    ("a static entry with all bits", b"\xff\x00", false),
    ("a dynamic entry with all bits", b"\xbf\x00", false),
    ("an entry past the Base with all bits", b"\x1f\x00", false),
    ("a static name", b"\x51\x01c", false),
    ("a static name, never indexed", b"\x71\x01c", true),
    ("a dynamic name", b"\x4f\x00\x01c", false),
    ("a dynamic name, never indexed", b"\x60\x01c", true),
    ("a name past the Base", b"\x07\x00\x01c", false),
    ("a name past the Base, never indexed", b"\x08\x01c", true),
    ("a name in the Huffman code", b"\x2f\x00", false),
    ("a name, never indexed", b"\x31a\x01b", true),
];

#[test]
fn lines_never_indexed(rt: HostRuntime) {
    for (shows, line, wanted) in &NEVER {
        assert!(rt; is_never_indexed(line) == *wanted, "{shows}");
    }
}
