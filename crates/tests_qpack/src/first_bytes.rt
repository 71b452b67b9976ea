//! Every first byte of a field line: its representation by bits 7 to 4 (RFC 9204, sections 4.5.2
//! to 4.5.6), and the meaning of the low bits of lines with a literal name. `static_table` has the
//! lines that refer to an entry.
use crate::same::assert_same;
use crate::sections::{assert_decoded, decode, join};
use std::alloc::Global;
use std::process::Abort;
use wtp_qpack::qpack::DecodingError;

/// A representation.
struct Form {
    case: &'static str,
    /// The least first byte.
    least: u8,
    /// The greatest first byte.
    greatest: u8,
    /// The result for a section that ends after the first byte.
    fault: Option<DecodingError>,
}

/// All representations. Lines that refer to the dynamic table are rejected by their first byte.
/// Other lines are complete or truncated.
static FORMS: [Form; 10] = [
    Form {
        case: "a name past the base",
        least: 0x00,
        greatest: 0x0f,
        fault: Some(DecodingError::DynamicNotSupported),
    },
    Form {
        case: "an index past the base",
        least: 0x10,
        greatest: 0x1f,
        fault: Some(DecodingError::DynamicNotSupported),
    },
    Form {
        case: "a literal name",
        least: 0x20,
        greatest: 0x3f,
        fault: Some(DecodingError::UnexpectedFin),
    },
    Form {
        case: "a dynamic name",
        least: 0x40,
        greatest: 0x4f,
        fault: Some(DecodingError::DynamicNotSupported),
    },
    Form {
        case: "a static name",
        least: 0x50,
        greatest: 0x5f,
        fault: Some(DecodingError::UnexpectedFin),
    },
    Form {
        case: "a dynamic name never to be indexed",
        least: 0x60,
        greatest: 0x6f,
        fault: Some(DecodingError::DynamicNotSupported),
    },
    Form {
        case: "a static name never to be indexed",
        least: 0x70,
        greatest: 0x7f,
        fault: Some(DecodingError::UnexpectedFin),
    },
    Form {
        case: "a dynamic index",
        least: 0x80,
        greatest: 0xbf,
        fault: Some(DecodingError::DynamicNotSupported),
    },
    Form {
        case: "a static index",
        least: 0xc0,
        greatest: 0xfe,
        fault: None,
    },
    Form {
        case: "a static index that goes on",
        least: 0xff,
        greatest: 0xff,
        fault: Some(DecodingError::UnexpectedFin),
    },
];

/// Asserts the result for each section that ends after the first byte of a line with this
/// representation, from the least to the greatest. Returns the number of first bytes.
fn assert_form(rt: &impl Abort, alloc: Global, form: &Form) -> u32 {
    let mut bytes = 0u32;
    for first in form.least..=form.greatest {
        let came = decode(alloc, &[0, 0, first]).err();
        assert_same(rt, (first, came), (first, form.fault), form.case);
        bytes = bytes.wrapping_add(1);
    }
    bytes
}

#[test]
fn first_bytes_past_refused_memory(rt: HostRuntime) {
    let mut bytes = 0u32;
    for form in &FORMS {
        bytes = bytes.wrapping_add(assert_form(&rt, rt.alloc(), form));
    }
    assert_same(&rt, bytes, 256, "each first byte");
}

/// The first byte of a line, the rest of the name, and the name.
type Row = (u8, &'static [u8], &'static str);

/// The bit of a literal line that must never be indexed.
const NEVER: u8 = 0x10;

/// Lines with a literal name. The byte `&` has the same length in the Huffman code, where it is
/// 0xf8.
static LITERAL: [Row; 16] = [
    (0x20, b"", ""),
    (0x21, b"&", "&"),
    (0x22, b"&&", "&&"),
    (0x23, b"&&&", "&&&"),
    (0x24, b"&&&&", "&&&&"),
    (0x25, b"&&&&&", "&&&&&"),
    (0x26, b"&&&&&&", "&&&&&&"),
    (0x27, b"\x00&&&&&&&", "&&&&&&&"),
    (0x28, b"", ""),
    (0x29, b"\xf8", "&"),
    (0x2a, b"\xf8\xf8", "&&"),
    (0x2b, b"\xf8\xf8\xf8", "&&&"),
    (0x2c, b"\xf8\xf8\xf8\xf8", "&&&&"),
    (0x2d, b"\xf8\xf8\xf8\xf8\xf8", "&&&&&"),
    (0x2e, b"\xf8\xf8\xf8\xf8\xf8\xf8", "&&&&&&"),
    (0x2f, b"\x00\xf8\xf8\xf8\xf8\xf8\xf8\xf8", "&&&&&&&"),
];

/// Asserts that a section with this line and the value `v` decodes to its field.
fn assert_line(rt: &impl Abort, alloc: Global, first: u8, rest: &[u8], name: &str) {
    let section = join(rt, alloc, [&[0, 0, first], rest, b"\x01v"]);
    assert_decoded(rt, alloc, section.as_slice(), &[(name, "v")], first);
}

#[test]
fn lines_of_literal_names_past_refused_memory(rt: HostRuntime) {
    for (first, rest, name) in &LITERAL {
        assert_line(&rt, rt.alloc(), *first, rest, name);
        assert_line(&rt, rt.alloc(), *first | NEVER, rest, name);
    }
}
