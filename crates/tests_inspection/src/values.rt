//! The display of values that a terminal, a JSON parser or a browser might interpret. The expected
//! output follows from docs/INSPECTOR.md.
use crate::display::{are_json, section_of, show_once, text_in};
use crate::same::assert_same;
use json::{Reader, Scratch, Token};
use std::alloc::Global;
use std::process::Abort;
use wt_inspection_views::plain::LINE_MARK;

/// A section with a field `x`, and how its value is shown.
struct ValueRow {
    section: &'static [u8],
    /// The value in the text.
    text: &'static str,
    /// The key of the value in the JSON, which is `hex` for digits.
    key: &'static str,
    /// The string that a JSON parser finds there.
    value: &'static str,
}

static VALUES: [ValueRow; 15] = [
    ValueRow {
        section: b"\x00\x00\x21x\x03a\nb",
        text: "a\\x0ab",
        key: "fields",
        value: "a\nb",
    },
    ValueRow {
        section: b"\x00\x00\x21x\x03a\r0",
        text: "a\\x0d0",
        key: "fields",
        value: "a\r0",
    },
    ValueRow {
        section: b"\x00\x00\x21x\x04\x1b[1m",
        text: "\\x1b[1m",
        key: "fields",
        value: "\u{1b}[1m",
    },
    ValueRow {
        section: b"\x00\x00\x21x\x02\xc3\x28",
        text: "\\xc3(",
        key: "hex",
        value: "c328",
    },
    ValueRow {
        section: b"\x00\x00\x21x\x04\xc2\x9b1m",
        text: "\\xc2\\x9b1m",
        key: "hex",
        value: "c29b316d",
    },
    ValueRow {
        section: b"\x00\x00\x21x\x01\x7f",
        text: "\\x7f",
        key: "hex",
        value: "7f",
    },
    ValueRow {
        section: b"\x00\x00\x21x\x04\\x41",
        text: "\\x5cx41",
        key: "fields",
        value: "\\x41",
    },
    ValueRow {
        section: b"\x00\x00\x21x\x01\x00",
        text: "\\x00",
        key: "fields",
        value: "\0",
    },
    ValueRow {
        // RIGHT-TO-LEFT OVERRIDE, U+202E
        section: b"\x00\x00\x21x\x05a\xe2\x80\xaeb",
        text: "a\\xe2\\x80\\xaeb",
        key: "hex",
        value: "61e280ae62",
    },
    ValueRow {
        // ZERO WIDTH SPACE, U+200B
        section: b"\x00\x00\x21x\x05a\xe2\x80\x8bb",
        text: "a\\xe2\\x80\\x8bb",
        key: "hex",
        value: "61e2808b62",
    },
    ValueRow {
        // TAG LATIN CAPITAL LETTER A, U+E0041
        section: b"\x00\x00\x21x\x04\xf3\xa0\x81\x81",
        text: "\\xf3\\xa0\\x81\\x81",
        key: "hex",
        value: "f3a08181",
    },
    ValueRow {
        // the mark of lines, U+258C
        section: b"\x00\x00\x21x\x05\xe2\x96\x8c 0",
        text: "\\xe2\\x96\\x8c 0",
        key: "fields",
        value: "\u{258c} 0",
    },
    ValueRow {
        // Hebrew, which is seen as it is after its name
        section: b"\x00\x00\x21x\x04\xd7\xa9\xd7\x9c",
        text: "\u{5e9}\u{5dc}",
        key: "fields",
        value: "\u{5e9}\u{5dc}",
    },
    ValueRow {
        section: b"\x00\x00\x21x\x03\"}]",
        text: "\"}]",
        key: "fields",
        value: "\"}]",
    },
    ValueRow {
        section: b"\x00\x00\x21x\x06w\xc3\xb6rld",
        text: "w\u{f6}rld",
        key: "fields",
        value: "w\u{f6}rld",
    },
];

/// Returns the last key and the last string that a JSON parser finds among its first tokens.
fn last_words<'a>(reader: &mut Reader<'a>) -> (&'a str, &'a str) {
    let mut key = "";
    let mut text = "";
    for _ in 0..64 {
        match reader.next() {
            Some(Token::Key(found)) => key = found,
            Some(Token::String(found)) => text = found,
            _ => {}
        }
    }
    (key, text)
}

/// Asserts the last key and string in the first line, and that each line is valid JSON.
fn check_lines<R: Abort>(rt: &R, alloc: Global, lines: &str, wanted: (&str, &str)) {
    assert_same(rt, are_json(rt, alloc, lines), true, wanted.1);
    let mut scratch = Scratch::new(alloc);
    let line = lines.lines().next().unwrap_or("");
    let mut reader = Reader::new(line, &mut scratch).expect(rt, "memory");
    assert_same(rt, last_words(&mut reader), wanted, wanted.1);
}

/// Asserts the value in the text and in the parsed JSON.
fn check_value<R: Abort>(rt: &R, alloc: Global, row: &ValueRow) {
    let given = section_of(row.section);
    let shown = show_once(alloc, given).expect(rt, "memory");
    let line = shown.text.as_str().lines().nth(1).unwrap_or("");
    assert_same(
        rt,
        line.strip_prefix(LINE_MARK)
            .and_then(|words| words.strip_prefix("        x = ")),
        Some(row.text),
        row.text,
    );
    let lines = text_in(shown.lines.as_slice());
    check_lines(rt, alloc, lines, (row.key, row.value));
}

#[test]
fn values_are_shown_as_text(rt: HostRuntime) {
    for row in &VALUES {
        check_value(&rt, rt.alloc(), row);
    }
}

#[test]
fn names_are_shown_in_ascii(rt: HostRuntime) {
    // Names with a blank, and with a letter that is written from right to left (RFC 9204, section
    // 4.5.6).
    let sections: [(&[u8], &str); 2] = [
        (b"\x00\x00\x25a = b\x01c", "a\\x20=\\x20b = c"),
        (b"\x00\x00\x22\xd7\xa9\x02\xd7\x9c", "\\xd7\\xa9 = \u{5dc}"),
    ];
    for (section, words) in sections {
        let shown = show_once(rt.alloc(), section_of(section)).expect(&rt, "memory");
        let line = shown.text.as_str().lines().nth(1).unwrap_or("");
        let came = line.strip_prefix(LINE_MARK).map(|line| line.trim_start());
        assert_same(&rt, came, Some(words), words);
    }
}

/// The length of a long name.
const LONG: usize = 61_440;

/// Returns a section with a field that has a long name and an empty value (RFC 9204, section
/// 4.5.6).
fn long_section<R: Abort>(rt: &R, alloc: Global) -> Vec<u8> {
    // 61440 is 7 and 61433, which is 121 + 95 * 128 + 3 * 128 * 128.
    let head = b"\x00\x00\x27\xf9\xdf\x03";
    let mut bytes = Vec::from_slice(alloc, head).expect(rt, "memory");
    bytes.resize(6 + LONG, b'n').expect(rt, "memory");
    bytes.push(0).expect(rt, "memory");
    bytes
}

#[test]
fn a_long_name_is_shown(rt: HostRuntime) {
    let bytes = long_section(&rt, rt.alloc());
    let shown = show_once(rt.alloc(), section_of(bytes.as_slice())).expect(&rt, "memory");
    let line = shown.text.as_str().lines().nth(1).unwrap_or("");
    assert_same(
        &rt,
        line.len(),
        LONG + 15,
        "after a mark of 4 bytes, indented by 8, and followed by an equals sign",
    );
    assert_same(
        &rt,
        line.trim_end_matches(" = ")
            .trim_start_matches(LINE_MARK)
            .trim_start()
            .len(),
        LONG,
        "the name",
    );
    let lines = text_in(shown.lines.as_slice());
    assert_same(&rt, are_json(&rt, rt.alloc(), lines), true, "lines");
}
