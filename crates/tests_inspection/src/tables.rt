//! Field sections that need the dynamic table, with the encoder stream and without it. The
//! encoder streams and most sections are those of RFC 9204, Appendix B; what is expected of the
//! others follows from its sections 2.2, 3.2 and 4.5.
use crate::same::assert_same;
use std::alloc::Global;
use std::process::Abort;
use wt_inspection::item::{FieldSection, Index, Line, SectionFault, Unknown};
use wt_inspection::{Content, End, Insertions, Recorded, inspect_with, instructions_in};
use wtp_dynamic::error::EncoderStreamError;

/// The encoder stream of the appendix up to B.2.
const TWO: &[u8] = b"\x3f\xbd\x01\xc0\x0fwww.example.com\xc1\x0c/sample/path";

/// The same up to B.5, where the first entry is evicted.
const FIVE: &[u8] = b"\x3f\xbd\x01\xc0\x0fwww.example.com\xc1\x0c/sample/path\
    \x4acustom-key\x0ccustom-value\x02\x81\x0dcustom-value2";

/// Three entries `a`, `b` and `c` without values, of which a table of 64 bytes has one.
const WRAPPED: &[u8] = b"\x3f\x21\x41a\x00\x41b\x00\x41c\x00";

/// What is known of a line: what is unknown of it and by which index, and its name and value.
type Wanted = (&'static str, u64, &'static str, &'static str);

/// A section, and its lines.
struct Row {
    case: &'static str,
    section: &'static [u8],
    encoder: Option<&'static [u8]>,
    /// The limit of the capacity.
    limit: u32,
    lines: &'static [Wanted],
    /// What is missing of the lines or wrong with them.
    fault: &'static str,
}

static ROWS: [Row; 17] = [
    Row {
        case: "B.1",
        section: b"\x00\x00\x51\x0b/index.html",
        encoder: None,
        limit: 220,
        lines: &[("", 0, ":path", "/index.html")],
        fault: "",
    },
    Row {
        case: "B.2",
        section: b"\x03\x81\x10\x11",
        encoder: Some(TWO),
        limit: 220,
        lines: &[
            ("", 0, ":authority", "www.example.com"),
            ("", 0, ":path", "/sample/path"),
        ],
        fault: "",
    },
    Row {
        case: "B.2 without an encoder stream",
        section: b"\x03\x81\x10\x11",
        encoder: None,
        limit: 220,
        lines: &[
            ("field past the base", 0, "", ""),
            ("field past the base", 1, "", ""),
        ],
        fault: "no encoder stream",
    },
    Row {
        case: "B.2, whose first entry is evicted later",
        section: b"\x03\x81\x10\x11",
        encoder: Some(FIVE),
        limit: 220,
        lines: &[
            ("", 0, ":authority", "www.example.com"),
            ("", 0, ":path", "/sample/path"),
        ],
        fault: "",
    },
    Row {
        case: "B.4",
        section: b"\x05\x00\x80\xc1\x81",
        encoder: Some(FIVE),
        limit: 220,
        lines: &[
            ("", 0, ":authority", "www.example.com"),
            ("", 0, ":path", "/"),
            ("", 0, "custom-key", "custom-value"),
        ],
        fault: "",
    },
    Row {
        case: "B.4 without an encoder stream",
        section: b"\x05\x00\x80\xc1\x81",
        encoder: None,
        limit: 220,
        lines: &[
            ("field", 0, "", ""),
            ("", 0, ":path", "/"),
            ("field", 1, "", ""),
        ],
        fault: "no encoder stream",
    },
    Row {
        case: "B.4 after the insertions of B.2",
        section: b"\x05\x00\x80\xc1\x81",
        encoder: Some(TWO),
        limit: 220,
        lines: &[
            ("field", 0, "", ""),
            ("", 0, ":path", "/"),
            ("field", 1, "", ""),
        ],
        fault: "4 of 2",
    },
    Row {
        case: "names of entries without an encoder stream",
        section: b"\x03\x81\x40\x01x\x00\x01y",
        encoder: None,
        limit: 220,
        lines: &[("name", 0, "", "x"), ("name past the base", 0, "", "y")],
        fault: "no encoder stream",
    },
    Row {
        case: "names of entries",
        section: b"\x03\x80\x40\x01x\x00\x01y",
        encoder: Some(TWO),
        limit: 220,
        lines: &[("", 0, ":authority", "x"), ("", 0, ":path", "y")],
        fault: "",
    },
    Row {
        case: "a reference with a count of 0",
        section: b"\x00\x00\xd1\x80",
        encoder: None,
        limit: 220,
        lines: &[("", 0, ":method", "GET")],
        fault: "entry not found in the dynamic table",
    },
    Row {
        case: "the same with an encoder stream",
        section: b"\x00\x00\xd1\x80",
        encoder: Some(TWO),
        limit: 220,
        lines: &[("", 0, ":method", "GET")],
        fault: "entry not found in the dynamic table",
    },
    Row {
        case: "a negative base with a count of 0",
        section: b"\x00\x80\xd1",
        encoder: None,
        limit: 220,
        lines: &[],
        fault: "negative base",
    },
    Row {
        case: "a count that is no more than the delta base",
        section: b"\x03\x82\x10",
        encoder: Some(TWO),
        limit: 220,
        lines: &[],
        fault: "negative base",
    },
    Row {
        case: "a reference past the count",
        section: b"\x02\x01\x80",
        encoder: Some(TWO),
        limit: 220,
        lines: &[],
        fault: "entry not found in the dynamic table",
    },
    Row {
        case: "a line that is cut after a reference",
        section: b"\x03\x81\x10\x1f",
        encoder: None,
        limit: 220,
        lines: &[("field past the base", 0, "", "")],
        fault: "section ends too early",
    },
    Row {
        case: "a count above the largest encoded number",
        section: b"\x0d\x00",
        encoder: Some(TWO),
        limit: 220,
        lines: &[],
        fault: "invalid required insert count",
    },
    Row {
        case: "a count that is encoded as that of a later section",
        section: b"\x02\x00\x80",
        encoder: Some(WRAPPED),
        limit: 64,
        lines: &[("", 0, "a", "")],
        fault: "",
    },
];

/// Returns what is unknown of a line, and by which index.
fn unknown_of(line: &Line) -> (&'static str, u64) {
    match line.unknown {
        None => ("", 0),
        Some(Unknown::Field(Index::Relative(index))) => ("field", index),
        Some(Unknown::Field(Index::PostBase(index))) => ("field past the base", index),
        Some(Unknown::Name(Index::Relative(index))) => ("name", index),
        Some(Unknown::Name(Index::PostBase(index))) => ("name past the base", index),
    }
}

/// Asserts what is missing of a section or wrong with it.
fn check_fault<R: Abort>(rt: &R, alloc: Global, section: &FieldSection, row: &Row) {
    let text = match section.fault {
        None => String::from_str(alloc, ""),
        Some(SectionFault::NeedsDynamicTable) => String::from_str(alloc, "no encoder stream"),
        Some(SectionFault::NeedsInsertions(required, inserted)) => {
            format!(in alloc; "{required} of {inserted}")
        }
        Some(SectionFault::Malformed(fault)) => format!(in alloc; "{fault}"),
    };
    let text = text.expect(rt, "memory");
    assert_same(rt, text.as_str(), row.fault, row.case);
}

/// Asserts the lines of a section.
fn check_section<R: Abort>(rt: &R, alloc: Global, section: &FieldSection, row: &Row) {
    assert_same(rt, section.lines.len(), row.lines.len(), row.case);
    for (line, wanted) in section.lines.iter().zip(row.lines.iter()) {
        let (unknown, index) = unknown_of(line);
        let name = str::from_utf8(line.name.as_slice()).unwrap_or("not UTF-8");
        let value = str::from_utf8(line.value.as_slice()).unwrap_or("not UTF-8");
        assert_same(rt, (unknown, index, name, value), *wanted, row.case);
    }
    check_fault(rt, alloc, section, row);
}

/// Asserts what a row says.
fn check_row<R: Abort>(rt: &R, alloc: Global, row: &Row) {
    let bytes = instructions_in(row.encoder.unwrap_or(&[]));
    let sent = Insertions::read(alloc, u64::from(row.limit), bytes).expect(
        rt,
        "the encoder stream",
    );
    let sent = if row.encoder.is_some() {
        Some(&sent)
    } else {
        None
    };
    let found = inspect_with(alloc, Recorded::Section, row.section, false, sent).expect(
        rt, "memory",
    );
    let Some(item) = found.items.first() else {
        return assert_same(rt, "no item", "an item", row.case);
    };
    let Content::Section(section) = &item.content else {
        return assert_same(rt, "another item", "a section", row.case);
    };
    check_section(rt, alloc, section, row);
    let is_malformed = matches!(section.fault, Some(SectionFault::Malformed(_)));
    let is_fault =
        matches!(found.end, End::Fault(fault) if fault.code.code().number().into_inner() == 0x200);
    assert_same(rt, is_fault, is_malformed, row.case);
}

#[test]
fn sections_need_the_dynamic_table(rt: HostRuntime) {
    for row in &ROWS {
        check_row(&rt, rt.alloc(), row);
    }
}

#[test]
fn stream_types_are_left_out(rt: HostRuntime) {
    for (bytes, rest) in [
        (b"\x02\x3f\xbd\x01".as_slice(), b"\x3f\xbd\x01".as_slice()),
        (
            b"\x40\x02\x3f\xbd\x01".as_slice(),
            b"\x3f\xbd\x01".as_slice(),
        ),
        (b"\x3f\xbd\x01".as_slice(), b"\x3f\xbd\x01".as_slice()),
        (b"\x02".as_slice(), b"".as_slice()),
        (b"".as_slice(), b"".as_slice()),
    ] {
        assert_eq!(&rt; instructions_in(bytes), rest);
    }
}

#[test]
fn faults_of_encoder_streams_are_told(rt: HostRuntime) {
    let low = Insertions::read(rt.alloc(), 219, TWO);
    assert!(rt; matches!(low, Err(EncoderStreamError::CapacityAboveLimit)));
    let none = Insertions::read(rt.alloc(), 220, b"\x3f\xbd\x01\x02");
    assert!(rt; matches!(none, Err(EncoderStreamError::EntryNotFound)));
    let large = Insertions::read(rt.alloc(), 220, b"\xc0\x01a");
    assert!(rt; matches!(large, Err(EncoderStreamError::EntryTooLarge)));
    let cut = Insertions::read(rt.alloc(), 220, b"\x3f\xbd\x01\xc0\x0fwww");
    assert!(rt; cut.is_ok());
}
