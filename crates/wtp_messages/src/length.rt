//! The `content-length` of a message (RFC 9110, section 8.6).
ghost use Rattle.std.specs.Prelude.{◌≡◌, ◌∷◌, ◌+◌, ◌*◌, ◌<◌, length, true, false, Some, MatchOption, MatchResult};
ghost use Rattle.std.specs.Prelude.{IfSome};
ghost use Rattle.std.specs.Char.{digit_value};
ghost use Rattle.std.specs.Option.{option_copied};
ghost use Rattle.wtp_fields.specs.FieldWriting.{is_blank as is_blank_byte};
ghost use Rattle.wtp_messages.specs.Length.{parts_of, later_parts, without_start, without_end, number_of, is_digit, HasNoDigit, lengths_in, lengths_of, before, is_other, all_agree, first_length, content_length};

use crate::malformed::Malformed;
use wtp_core::varint::VarInt;
use wtp_fields::fields::FieldList;

/// Reads the `content-length` of a section: `None` if it has none, and else the one length that all
/// fields of this name agree on, and all parts of a value that is a list.
pub(crate) fn read_length(list: &FieldList) -> Result<Option<u64>, Malformed>
    ensures { MatchResult result
        (λ length. (all_agree (lengths_of list.now) ≡ true) × (length ≡ content_length list.now))
        (λ rule. (rule ≡ Malformed.InvalidContentLength)
        × (all_agree (lengths_of list.now) ≡ false)) }
{
    let mut values = list.all(b"content-length");
    let mut found: Option<u64> = None;
    while let Some(value) = values.next() {
        found = Some(length_in(found, value)?);
    }
    Ok(found)
}

/// Reads the length in a value, which is that of the values before if there was one.
fn length_in(found: Option<u64>, value: &[u8]) -> Result<u64, Malformed>
    ensures { MatchResult result
        (λ n. (all_agree (before found (lengths_in value.now)) ≡ true)
        × (first_length (before found (lengths_in value.now)) ≡ Some n))
        (λ rule. (rule ≡ Malformed.InvalidContentLength)
        × (all_agree (before found (lengths_in value.now)) ≡ false)) }
{
    let mut found = found;
    let mut rest = value;
    'parts: loop {
        let (part, others) = first_part(rest);
        let Some(n) = number_in(without_blanks(part)) else {
            return Err(Malformed::InvalidContentLength);
        };
        if differs(found, n) {
            return Err(Malformed::InvalidContentLength);
        }
        match others {
            None => return Ok(n),
            Some(others) => {
                found = Some(n);
                rest = others;
            }
        }
    }
}

/// Returns whether another length was found.
fn differs(found: Option<u64>, n: u64) -> bool
    ensures { result ≡ is_other found n }
{
    match found {
        None => false,
        Some(m) => m != n,
    }
}

/// Returns the part of a list before its first comma, and what follows the comma if there is one.
fn first_part(text: &[u8]) -> (&[u8], Option<&[u8]>)
    ensures parts { parts_of text.now ≡ result.0.now ∷ later_parts (option_copied result.1) }
    ensures shorter { IfSome result.1 (λ others. length others.now < length text.now) }
{
    for i in 0..text.len() {
        if text[i] == b',' {
            return (text.split_at(i).0, Some(text.split_at(i + 1).1));
        }
    }
    (text, None)
}

/// Returns a text without spaces and tabs at its ends.
fn without_blanks(text: &[u8]) -> &[u8]
    ensures { result.now ≡ without_end (without_start text.now) }
{
    trim_end(trim_start(text))
}

/// Returns a text without spaces and tabs at its start.
fn trim_start(text: &[u8]) -> &[u8]
    ensures { result.now ≡ without_start text.now }
{
    let mut rest = text;
    while let Some((first, others)) = rest.split_first() {
        if !is_blank(*first) {
            return rest;
        }
        rest = others;
    }
    rest
}

/// Returns a text without spaces and tabs at its end.
fn trim_end(text: &[u8]) -> &[u8]
    ensures { result.now ≡ without_end text.now }
{
    let mut rest = text;
    while let Some((last, others)) = rest.split_last() {
        if !is_blank(*last) {
            return rest;
        }
        rest = others;
    }
    rest
}

/// Returns whether a byte is a space or a tab.
fn is_blank(byte: u8) -> bool
    ensures { result ≡ is_blank_byte byte }
{
    byte == b' ' || byte == b'\t'
}

/// Returns the number below 2^62 that decimal digits denote, or `None` if the text is none.
fn number_in(text: &[u8]) -> Option<u64>
    ensures { result ≡ number_of text.now }
{
    if text.is_empty() {
        return None;
    }
    let mut number: u64 = 0;
    for byte in text {
        let Some(more) = with_digit(number, *byte) else {
            return None;
        };
        number = more;
    }
    if number > VarInt::MAX.into_inner() {
        return None;
    }
    Some(number)
}

/// Returns the number that this digit follows, or `None` if the byte is none or the number is
/// too large.
fn with_digit(number: u64, byte: u8) -> Option<u64>
    ensures { MatchOption result (HasNoDigit number byte)
        (λ more. (is_digit byte ≡ true) × (more ≡ number * 10 + digit_value byte)) }
{
    if !byte.is_ascii_digit() {
        return None;
    }
    let digit = u64::from(byte - b'0');
    number.checked_mul(10)?.checked_add(digit)
}
