//! The Huffman code: the standard's examples and table, worked rows, and failed allocations.
use crate::same::assert_same;
use std::alloc::{AllocError, Global};
use std::fmt::Display;
use std::process::Abort;
use wtp_huffman::huffman::{HuffmanError, decode, encode, encoded_len};

/// Encodes a string.
fn encode_once(alloc: Global, text: &[u8]) -> Result<Vec<u8>, AllocError> {
    encode(alloc, text)
}

/// Encodes a string, again if allocation failed.
fn encode_again(alloc: Global, text: &[u8]) -> Result<Vec<u8>, AllocError> {
    match encode_once(alloc, text) {
        Ok(coded) => Ok(coded),
        Err(AllocError) => encode_once(alloc, text),
    }
}

/// Decodes a string.
fn decode_once(alloc: Global, coded: &[u8]) -> Result<Vec<u8>, HuffmanError> {
    decode(alloc, coded)
}

/// Decodes a string, again if allocation failed.
fn decode_again(alloc: Global, coded: &[u8]) -> Result<Vec<u8>, HuffmanError> {
    match decode_once(alloc, coded) {
        Err(HuffmanError::Memory) => decode_once(alloc, coded),
        outcome => outcome,
    }
}

/// The case, a string, and its encoding, which no other string has.
type TextRow = (&'static str, &'static [u8], &'static [u8]);

/// Strings and their encodings.
static TEXTS: [TextRow; 18] = [
    // RFC 7541, Appendix C.
    (
        "C.4.1",
        b"www.example.com",
        b"\xf1\xe3\xc2\xe5\xf2\x3a\x6b\xa0\xab\x90\xf4\xff",
    ),
    ("C.4.2", b"no-cache", b"\xa8\xeb\x10\x64\x9c\xbf"),
    (
        "C.4.3 name",
        b"custom-key",
        b"\x25\xa8\x49\xe9\x5b\xa9\x7d\x7f",
    ),
    (
        "C.4.3 value",
        b"custom-value",
        b"\x25\xa8\x49\xe9\x5b\xb8\xe8\xb4\xbf",
    ),
    ("C.6.1 status", b"302", b"\x64\x02"),
    ("C.6.1 cache-control", b"private", b"\xae\xc3\x77\x1a\x4b"),
    (
        "C.6.1 date",
        b"Mon, 21 Oct 2013 20:13:21 GMT",
        b"\xd0\x7a\xbe\x94\x10\x54\xd4\x44\xa8\x20\x05\x95\x04\x0b\x81\x66\xe0\x82\xa6\x2d\x1b\xff",
    ),
    (
        "C.6.1 location",
        b"https://www.example.com",
        b"\x9d\x29\xad\x17\x18\x63\xc7\x8f\x0b\x97\xc8\xe9\xae\x82\xae\x43\xd3",
    ),
    ("C.6.2 status", b"307", b"\x64\x0e\xff"),
    (
        "C.6.3 date",
        b"Mon, 21 Oct 2013 20:13:22 GMT",
        b"\xd0\x7a\xbe\x94\x10\x54\xd4\x44\xa8\x20\x05\x95\x04\x0b\x81\x66\xe0\x84\xa6\x2d\x1b\xff",
    ),
    ("C.6.3 content-encoding", b"gzip", b"\x9b\xd9\xab"),
    (
        "C.6.3 set-cookie",
        b"foo=ASDJKHQKBZXOQWEOPIUAXQWEOIU; max-age=3600; version=1",
        b"\x94\xe7\x82\x1d\xd7\xf2\xe6\xc7\xb3\x35\xdf\xdf\xcd\x5b\x39\x60\xd5\xaf\x27\x08\x7f\x36\
        \x72\xc1\xab\x27\x0f\xb5\x29\x1f\x95\x87\x31\x60\x65\xc0\x03\xed\x4e\xe5\xb1\x06\x3d\x50\
        \x07",
    ),
    ("empty is empty", b"", b""),
    ("a word of five bits and three ones", b"a", b"\x1f"),
    ("the first word, all zeros", b"0", b"\x07"),
    ("a word of a whole byte, no padding", b"&", b"\xf8"),
    ("the last word of eight bits", b"Z", b"\xfd"),
    ("the longest word of a byte", b"\x16", b"\xff\xff\xff\xfb"),
];

/// Asserts that a string has this encoding.
fn assert_encoded<S: Display + Drop>(
    rt: &impl Abort,
    alloc: Global,
    text: &[u8],
    coded: &[u8],
    case: S,
) {
    let came = encode_again(alloc, text).expect(rt, "memory");
    assert_same(rt, came.as_slice(), coded, case);
}

/// Asserts that an encoding decodes to this string.
fn assert_decoded<S: Display + Drop>(
    rt: &impl Abort,
    alloc: Global,
    text: &[u8],
    coded: &[u8],
    case: S,
) {
    let came = decode_again(alloc, coded).expect(rt, "a text");
    assert_same(rt, came.as_slice(), text, case);
}

/// Asserts both, and that `encoded_len` returns the length of the encoding.
fn assert_measured(rt: &impl Abort, alloc: Global, text: &[u8], coded: &[u8], case: &str) {
    assert_same(rt, encoded_len(text), Some(coded.len()), case);
    assert_encoded(rt, alloc, text, coded, case);
    assert_decoded(rt, alloc, text, coded, case);
}

#[test]
fn texts_and_their_strings_past_refused_memory(rt: HostRuntime) {
    for (case, text, coded) in &TEXTS {
        assert_measured(&rt, rt.alloc(), text, coded, case);
    }
}

/// The case, and bytes that are not the encoding of any string.
static REFUSED: [(&str, &[u8]); 6] = [
    ("a word and three zeros", b"\x00"),
    ("eight ones", b"\xff"),
    ("a word and eleven ones", b"\x1f\xff"),
    ("a word of eight bits and eight ones", b"\xf8\xff"),
    ("the word of the end of the string", b"\xff\xff\xff\xff"),
    ("eight bits of a word of ten", b"\xfe"),
];

/// Asserts that bytes are rejected.
fn assert_refused(rt: &impl Abort, alloc: Global, coded: &[u8], case: &str) {
    assert_same(
        rt,
        decode_again(alloc, coded).err(),
        Some(HuffmanError::Invalid),
        case,
    );
}

#[test]
fn refused_strings_past_refused_memory(rt: HostRuntime) {
    for (case, coded) in &REFUSED {
        assert_refused(&rt, rt.alloc(), coded, case);
    }
}

/// The first allocations of this test are the initial capacity of each call, and growth where the
/// encoding is longer than the string. Each of them fails in turn.
#[test]
fn refused_memory(rt: HostRuntime) {
    let coded = b"\xff\xff\xff\xf3\xff\xff\xff\xcf\xff\xff\xff\x3f\xff\xff\xfc";
    let case = "four words of thirty bits";
    assert_encoded(&rt, rt.alloc(), b"\n\n\n\n", coded, case);
    assert_decoded(&rt, rt.alloc(), b"\n\n\n\n", coded, case);
}

/// Returns whether a byte is the encoding of a one-byte string. Otherwise it must be invalid.
fn is_text(rt: &impl Abort, alloc: Global, byte: u8) -> bool {
    match decode_again(alloc, &[byte]) {
        Ok(text) => {
            assert_same(rt, text.len(), 1, byte);
            true
        }
        Err(e) => {
            assert_same(rt, e, HuffmanError::Invalid, byte);
            false
        }
    }
}

#[test]
fn strings_of_one_byte_past_refused_memory(rt: HostRuntime) {
    let (mut texts, mut refused) = (0u32, 0u32);
    for byte in 0..=255u8 {
        if is_text(&rt, rt.alloc(), byte) {
            texts = texts.wrapping_add(1);
        } else {
            refused = refused.wrapping_add(1);
        }
    }
    assert_same(&rt, (texts, refused), (74, 182), "all strings");
}

/// Asserts that two bytes are invalid, or are the encoding of the string that they decode to.
fn assert_only(rt: &impl Abort, alloc: Global, coded: [u8; 2]) {
    let number = u16::from_be_bytes(coded);
    match decode_again(alloc, &coded) {
        Ok(text) => assert_encoded(rt, alloc, text.as_slice(), &coded, number),
        Err(e) => assert_same(rt, e, HuffmanError::Invalid, number),
    }
}

#[test]
fn strings_of_two_bytes_past_refused_memory(rt: HostRuntime) {
    for first in 0..=255u8 {
        for second in 0..=255u8 {
            assert_only(&rt, rt.alloc(), [first, second]);
        }
    }
}

/// Returns a code word at the start of 32 bits, padded with ones, and the number of bytes that it
/// extends into.
fn pad(bits: u32, number: u32) -> ([u8; 4], usize) {
    let left = 32u32.saturating_sub(bits);
    let ones = 1u32.wrapping_shl(left).wrapping_sub(1);
    let window = number.wrapping_shl(left).wrapping_add(ones);
    (window.to_be_bytes(), bits.div_ceil(8) as usize)
}

/// A length, the first code word of this length, and its symbols in the order of their code
/// words.
type Length = (u32, u32, &'static [u8]);

/// RFC 7541, Appendix B. EOS comes after the last code word.
static LENGTHS: [Length; 21] = [
    (5, 0x0, b"012aceiost"),
    (6, 0x14, b" %-./3456789=A_bdfghlmnpru"),
    (7, 0x5c, b":BCDEFGHIJKLMNOPQRSTUVWYjkqvwxyz"),
    (8, 0xf8, b"&*,;XZ"),
    (10, 0x3f8, b"!\"()?"),
    (11, 0x7fa, b"'+|"),
    (12, 0xffa, b"#>"),
    (13, 0x1ff8, &[0, 36, 64, 91, 93, 126]),
    (14, 0x3ffc, &[94, 125]),
    (15, 0x7ffc, &[60, 96, 123]),
    (19, 0x7fff0, &[92, 195, 208]),
    (20, 0xfffe6, &[128, 130, 131, 162, 184, 194, 224, 226]),
    (
        21,
        0x1fffdc,
        &[
            153, 161, 167, 172, 176, 177, 179, 209, 216, 217, 227, 229, 230,
        ],
    ),
    (
        22,
        0x3fffd2,
        &[
            129, 132, 133, 134, 136, 146, 154, 156, 160, 163, 164, 169, 170, 173, 178, 181, 185,
            186, 187, 189, 190, 196, 198, 228, 232, 233,
        ],
    ),
    (
        23,
        0x7fffd8,
        &[
            1, 135, 137, 138, 139, 140, 141, 143, 147, 149, 150, 151, 152, 155, 157, 158, 165, 166,
            168, 174, 175, 180, 182, 183, 188, 191, 197, 231, 239,
        ],
    ),
    (
        24,
        0xffffea,
        &[9, 142, 144, 145, 148, 159, 171, 206, 215, 225, 236, 237],
    ),
    (25, 0x1ffffec, &[199, 207, 234, 235]),
    (
        26,
        0x3ffffe0,
        &[
            192, 193, 200, 201, 202, 205, 210, 213, 218, 219, 238, 240, 242, 243, 255,
        ],
    ),
    (
        27,
        0x7ffffde,
        &[
            203, 204, 211, 212, 214, 221, 222, 223, 241, 244, 245, 246, 247, 248, 250, 251, 252,
            253, 254,
        ],
    ),
    (
        28,
        0xfffffe2,
        &[
            2, 3, 4, 5, 6, 7, 8, 11, 12, 14, 15, 16, 17, 18, 19, 20, 21, 23, 24, 25, 26, 27, 28,
            29, 30, 31, 127, 220, 249,
        ],
    ),
    (30, 0x3ffffffc, &[10, 13, 22]),
];

/// Asserts that a symbol has this code word, of `bits` bits.
fn assert_word(rt: &impl Abort, alloc: Global, symbol: u8, bits: u32, number: u32) {
    let (window, len) = pad(bits, number);
    let coded = window.get(..len).expect(rt, "at most 30 bits");
    assert_encoded(rt, alloc, &[symbol], coded, symbol);
    assert_decoded(rt, alloc, &[symbol], coded, symbol);
}

/// Asserts that symbols have consecutive code words of `bits` bits, starting at `first`. Returns
/// the number of symbols.
fn assert_words(rt: &impl Abort, alloc: Global, row: &[u8], bits: u32, first: u32) -> u32 {
    let mut symbols = 0u32;
    for symbol in row {
        assert_word(rt, alloc, *symbol, bits, first.wrapping_add(symbols));
        symbols = symbols.wrapping_add(1);
    }
    symbols
}

#[test]
fn words_past_refused_memory(rt: HostRuntime) {
    let mut symbols = 0u32;
    for (bits, first, row) in &LENGTHS {
        let few = assert_words(&rt, rt.alloc(), row, *bits, *first);
        symbols = symbols.wrapping_add(few);
    }
    assert_same(&rt, symbols, 256, "each symbol");
}

#[test]
fn end_of_the_string_past_refused_memory(rt: HostRuntime) {
    let (end, _) = pad(30, 0x3fff_ffff);
    let fault = decode_again(rt.alloc(), &end).err();
    assert_same(
        &rt,
        fault,
        Some(HuffmanError::Invalid),
        "the end of the string",
    );
}

/// Returns the text of an error, again if allocation failed.
fn text_of(alloc: Global, error: HuffmanError) -> Result<String, AllocError> {
    match error.to_string(alloc) {
        Ok(text) => Ok(text),
        Err(AllocError) => error.to_string(alloc),
    }
}

/// Asserts the text of an error.
fn assert_shown(rt: &impl Abort, alloc: Global, error: HuffmanError, text: &str) {
    let came = text_of(alloc, error).expect(rt, "memory");
    assert_same(rt, came.as_str(), text, "a message");
}

/// Errors and their texts.
static ERRORS: [(HuffmanError, &str); 2] = [
    (HuffmanError::Invalid, "invalid Huffman text"),
    (HuffmanError::Memory, "no memory"),
];

#[test]
fn messages_past_refused_memory(rt: HostRuntime) {
    for (error, text) in &ERRORS {
        assert_shown(&rt, rt.alloc(), *error, text);
    }
}
