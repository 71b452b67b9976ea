//! Encoder streams: the fault of each kind, entries of the largest size, changes of the capacity,
//! and entries that are evicted as they are named.
use crate::streams::{Field, assert_table, read_cut};
use std::process::Abort;

/// The bytes of a stream, and the fault at their end.
struct FaultRow {
    case: &'static str,
    limit: u64,
    bytes: &'static [u8],
    fault: &'static str,
}

/// Streams with a fault. `3f e1 1f` sets the capacity 4096, `3f 02` 33, `3f 03` 34, `3f 07` 38.
static FAULTS: [FaultRow; 20] = [
    FaultRow {
        case: "a capacity above the limit",
        limit: 32,
        bytes: b"\x3f\x02",
        fault: "CapacityAboveLimit",
    },
    FaultRow {
        case: "a capacity at a limit of 0",
        limit: 0,
        bytes: b"\x21",
        fault: "CapacityAboveLimit",
    },
    FaultRow {
        case: "a capacity of 2^64",
        limit: 4096,
        bytes: b"\x3f\xe1\xff\xff\xff\xff\xff\xff\xff\xff\x01",
        fault: "IntegerOverflow",
    },
    FaultRow {
        case: "a capacity of 2^64 - 1",
        limit: 4096,
        bytes: b"\x3f\xe0\xff\xff\xff\xff\xff\xff\xff\xff\x01",
        fault: "CapacityAboveLimit",
    },
    FaultRow {
        case: "an entry before a capacity was set",
        limit: 4096,
        bytes: b"\x40\x00",
        fault: "EntryTooLarge",
    },
    FaultRow {
        case: "an entry one larger than the capacity",
        limit: 4096,
        bytes: b"\x3f\x02\x41a\x01b",
        fault: "EntryTooLarge",
    },
    FaultRow {
        case: "an entry of a static name larger than the capacity",
        limit: 4096,
        bytes: b"\x3f\x03\xc1\x00",
        fault: "EntryTooLarge",
    },
    FaultRow {
        case: "an entry larger than a capacity that was lowered",
        limit: 4096,
        bytes: b"\x3f\xe1\x1f\x41a\x01b\x3f\x02\x41a\x01b",
        fault: "EntryTooLarge",
    },
    FaultRow {
        case: "an entry duplicated into a lowered capacity, which evicted it",
        limit: 4096,
        bytes: b"\x3f\xe1\x1f\x41a\x01b\x3f\x02\x00",
        fault: "EntryNotFound",
    },
    FaultRow {
        case: "a duplicate in an empty table",
        limit: 4096,
        bytes: b"\x3f\xe1\x1f\x00",
        fault: "EntryNotFound",
    },
    FaultRow {
        case: "a duplicate past the oldest entry",
        limit: 4096,
        bytes: b"\x3f\xe1\x1f\x41a\x01b\x01",
        fault: "EntryNotFound",
    },
    FaultRow {
        case: "a name past the oldest entry",
        limit: 4096,
        bytes: b"\x3f\xe1\x1f\x41a\x01b\x81\x01c",
        fault: "EntryNotFound",
    },
    FaultRow {
        case: "an index of 2^64 - 1",
        limit: 4096,
        bytes: b"\x3f\xe1\x1f\x41a\x01b\x1f\xe0\xff\xff\xff\xff\xff\xff\xff\xff\x01",
        fault: "EntryNotFound",
    },
    FaultRow {
        case: "the static index 99",
        limit: 4096,
        bytes: b"\x3f\xe1\x1f\xff\x24\x00",
        fault: "IndexNotFound",
    },
    FaultRow {
        case: "a static index of 2^64",
        limit: 4096,
        bytes: b"\x3f\xe1\x1f\xff\xc1\xff\xff\xff\xff\xff\xff\xff\xff\x01\x00",
        fault: "IntegerOverflow",
    },
    FaultRow {
        case: "a value with more than seven bits of padding",
        limit: 4096,
        bytes: b"\x3f\xe1\x1f\xc1\x82\x1f\xff",
        fault: "InvalidString",
    },
    FaultRow {
        case: "a name with the end of the string",
        limit: 4096,
        bytes: b"\x3f\xe1\x1f\x64\xff\xff\xff\xff\x00",
        fault: "InvalidString",
    },
    FaultRow {
        case: "a value with padding of zeros",
        limit: 4096,
        bytes: b"\x3f\xe1\x1f\xc1\x81\x18",
        fault: "InvalidString",
    },
    FaultRow {
        case: "an index with more groups than an instruction may have bytes",
        limit: 0,
        bytes: b"\x1f\x80\x80\x80\x80\x80\x80\x80\x80\x80\x80\x80\x80\x80\x80\x80\x80\x80\x80\x80\
        \x80\x80\x80\x80\x80\x80\x80\x80\x80\x80\x80\x80\x00",
        fault: "InstructionTooLong",
    },
    FaultRow {
        case: "a value longer than any that fits",
        limit: 0,
        bytes: b"\x40\x7f\x00aaaaaaaaaaaaaaaaaaaaaaaaaaaaaaaaaaaaaaaaaaaaaaaaaa",
        fault: "InstructionTooLong",
    },
];

/// Asserts the fault of a row, however its stream is cut.
fn assert_fault(rt: &impl Abort, alloc: std::alloc::Global, row: &FaultRow) {
    let case = row.case;
    for cut in 0..row.bytes.len() + 1 {
        let (_stream, fault) = read_cut(alloc, row.limit, row.bytes, cut);
        assert!(rt; fault == row.fault, "{case}, cut at {cut}: {fault}");
    }
}

#[test]
fn faults_of_streams(rt: HostRuntime) {
    for row in &FAULTS {
        assert_fault(&rt, rt.alloc(), row);
    }
}

/// The bytes of a stream, and what they make.
struct Row {
    case: &'static str,
    limit: u64,
    bytes: &'static [u8],
    /// How many of the bytes are held.
    held: usize,
    /// The entries that are left.
    entries: &'static [Field],
    /// How many entries were inserted.
    count: u64,
}

const AB: Field = (b"a", b"b");

const AC: Field = (b"a", b"c");

const CD: Field = (b"c", b"d");

/// Streams without a fault.
static STREAMS: [Row; 15] = [
    Row {
        case: "no byte",
        limit: 4096,
        bytes: b"",
        held: 0,
        entries: &[],
        count: 0,
    },
    Row {
        case: "a capacity of 0 at a limit of 0",
        limit: 0,
        bytes: b"\x20",
        held: 0,
        entries: &[],
        count: 0,
    },
    Row {
        case: "a capacity that is the limit",
        limit: 33,
        bytes: b"\x3f\x02",
        held: 0,
        entries: &[],
        count: 0,
    },
    Row {
        case: "an entry as large as the table",
        limit: 34,
        bytes: b"\x3f\x03\x41a\x01b",
        held: 0,
        entries: &[AB],
        count: 1,
    },
    Row {
        case: "an empty name and value",
        limit: 32,
        bytes: b"\x3f\x01\x40\x00",
        held: 0,
        entries: &[(b"", b"")],
        count: 1,
    },
    Row {
        case: "an entry in place of another",
        limit: 34,
        bytes: b"\x3f\x03\x41a\x01b\x41c\x01d",
        held: 0,
        entries: &[CD],
        count: 2,
    },
    Row {
        case: "a name of the entry that its insertion evicts",
        limit: 34,
        bytes: b"\x3f\x03\x41a\x01b\x80\x01c",
        held: 0,
        entries: &[AC],
        count: 2,
    },
    Row {
        case: "a duplicate of the entry that it evicts",
        limit: 34,
        bytes: b"\x3f\x03\x41a\x01b\x00",
        held: 0,
        entries: &[AB],
        count: 2,
    },
    Row {
        case: "a duplicate of the older of two, which it evicts",
        limit: 68,
        bytes: b"\x3f\x25\x41a\x01b\x41c\x01d\x01",
        held: 0,
        entries: &[CD, AB],
        count: 3,
    },
    Row {
        case: "a lower capacity evicts, and a greater brings nothing back",
        limit: 4096,
        bytes: b"\x3f\xe1\x1f\x41a\x01b\x41c\x01d\x3f\x03\x3f\xe1\x1f",
        held: 0,
        entries: &[CD],
        count: 2,
    },
    Row {
        case: "a capacity of 0 evicts all",
        limit: 4096,
        bytes: b"\x3f\xe1\x1f\x41a\x01b\x20",
        held: 0,
        entries: &[],
        count: 1,
    },
    Row {
        case: "Huffman text",
        limit: 4096,
        bytes: b"\x3f\xe1\x1f\x61\x1f\x81\x8f",
        held: 0,
        entries: &[AB],
        count: 1,
    },
    Row {
        case: "a cut capacity",
        limit: 4096,
        bytes: b"\x3f\xe1",
        held: 2,
        entries: &[],
        count: 0,
    },
    Row {
        case: "a cut value",
        limit: 4096,
        bytes: b"\x3f\xe1\x1f\x41a\x01b\x41c\x02d",
        held: 4,
        entries: &[AB],
        count: 1,
    },
    Row {
        case: "a capacity with groups of zeros",
        limit: 34,
        bytes: b"\x3f\x83\x80\x80\x00\x41a\x01b",
        held: 0,
        entries: &[AB],
        count: 1,
    },
];

/// Asserts what a row's stream makes, however it is cut.
fn assert_stream(rt: &impl Abort, alloc: std::alloc::Global, row: &Row) {
    let case = row.case;
    for cut in 0..row.bytes.len() + 1 {
        let (stream, fault) = read_cut(alloc, row.limit, row.bytes, cut);
        assert!(rt; fault == "", "{case}, cut at {cut}: {fault}");
        assert!(rt;
            stream.held() == row.held,
            "{case}, cut at {cut}: what is held"
        );
        assert!(rt;
            stream.table().insert_count() == row.count,
            "{case}: its count"
        );
        assert_table(rt, stream.table(), row.entries, case);
    }
}

#[test]
fn tables_of_streams(rt: HostRuntime) {
    for row in &STREAMS {
        assert_stream(&rt, rt.alloc(), row);
    }
}
