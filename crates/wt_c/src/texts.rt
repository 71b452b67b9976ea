//! The texts of fields.
ghost use Rattle.std.specs.Prelude.{◌≡◌, ◌≤◌, ◌+◌, length, take, drop, IsUtf8, IsTrue};
ghost use Rattle.std.specs.Prelude.{MatchOption, MatchBool};
ghost use Rattle.std.specs.Str.{IsAscii};
ghost use Rattle.wt_c.specs.Fields.{field_in, IsWithin, AreWithin};
ghost use Rattle.wt_c.specs.Texts.{IsTextField, AreTextFields};

use crate::fields::WtField;
use crate::status::{INVALID, MEMORY};

/// The bytes of an array of texts are tested for ASCII at once if they are at most this many for
/// each field.
const MAX_BYTES_PER_FIELD: usize = 128;

/// Why the arguments were rejected.
#[derive(Drop)]
pub(crate) enum Rejection {
    /// An argument is out of its range.
    Invalid,
    /// Memory allocation failed.
    Memory,
}

impl Rejection {
    /// Returns the answer in C.
    pub(crate) fn answer(self) -> i32
        ensures invalid { self ≡ Rejection.Invalid → result ≡ INVALID }
        ensures memory { self ≡ Rejection.Memory → result ≡ MEMORY }
    {
        match self {
            Rejection::Invalid => INVALID,
            Rejection::Memory => MEMORY,
        }
    }
}

/// Returns the bytes as a text, if they are UTF-8.
#[cold]
#[inline(never)]
fn validate(bytes: &[u8]) -> Option<&str>
    ensures { MatchOption result (¬ (IsUtf8 bytes.now))
        (λ text. (text.now ≡ bytes.now) × IsUtf8 bytes.now) }
{
    str::from_utf8(bytes).ok()
}

/// The same, sooner for ASCII, as nearly every text is.
#[inline(always)]
fn text_of(bytes: &[u8]) -> Option<&str>
    ensures { MatchOption result (¬ (IsUtf8 bytes.now))
        (λ text. (text.now ≡ bytes.now) × IsUtf8 bytes.now) }
{
    if bytes.is_ascii() {
        return Some(unsafe { str::from_utf8_unchecked(bytes) });
    }
    validate(bytes)
}

/// Returns the bytes at a place.
#[inline(always)]
fn bytes_at(bytes: &[u8], offset: usize, len: usize) -> &[u8]
    requires { offset + len ≤ length bytes.now }
    ensures { result.now ≡ take len (drop offset bytes.now) }
{
    let (_, behind) = bytes.split_at(offset);
    behind.split_at(len).0
}

/// Returns whether a place is within this many bytes.
#[inline(always)]
fn is_within(size: usize, offset: usize, len: usize) -> bool
    ensures { MatchBool result (offset + len ≤ size) (¬ (offset + len ≤ size)) }
{
    offset <= size && len <= size - offset
}

/// Returns the text at a place, if it is within the bytes and UTF-8.
#[inline(always)]
fn text_at(bytes: &[u8], offset: usize, len: usize) -> Option<&str>
    ensures { MatchOption result
        (¬ ((offset + len ≤ length bytes.now) × IsUtf8 (take len (drop offset bytes.now))))
        (λ text. (offset + len ≤ length bytes.now) × (text.now ≡ take len (drop offset bytes.now))
        × IsUtf8 text.now) }
{
    if !is_within(bytes.len(), offset, len) {
        return None;
    }
    text_of(bytes_at(bytes, offset, len))
}

/// Returns the name and the value of a field, if they are within the texts.
pub(crate) fn parts_of<'a>(field: &WtField, texts: &'a [u8]) -> Option<(&'a [u8], &'a [u8])>
    ensures { MatchOption result (¬ (IsWithin (length texts.now) field.now))
        (λ f. IsWithin (length texts.now) field.now
        × ((f.0.now, f.1.now) ≡ field_in texts.now field.now)) }
{
    if !is_within(texts.len(), field.name_offset, field.name_len)
        || !is_within(texts.len(), field.value_offset, field.value_len)
    {
        return None;
    }
    let name = bytes_at(texts, field.name_offset, field.name_len);
    let value = bytes_at(texts, field.value_offset, field.value_len);
    Some((name, value))
}

/// Returns the name and the value of a field, if they are texts.
pub(crate) fn texts_of<'a>(field: &WtField, texts: &'a [u8]) -> Option<(&'a str, &'a str)>
    ensures { MatchOption result (¬ (IsTextField texts.now field.now))
        (λ f. IsTextField texts.now field.now
        × ((f.0.now, f.1.now) ≡ field_in texts.now field.now)) }
{
    let name = text_at(texts, field.name_offset, field.name_len)?;
    let value = text_at(texts, field.value_offset, field.value_len)?;
    Some((name, value))
}

/// Returns whether bytes are ASCII. If they are more than `max_len`, it returns `false` in any
/// case.
fn is_short_ascii(bytes: &[u8], max_len: usize) -> bool
    ensures { IsTrue result → IsAscii bytes.now }
{
    bytes.len() <= max_len && bytes.is_ascii()
}

/// Returns whether all names and values are within this many bytes.
pub(crate) fn are_within(fields: &[WtField], size: usize) -> bool
    ensures { MatchBool result (AreWithin size fields.now) (¬ (AreWithin size fields.now)) }
{
    for field in fields {
        if !is_within(size, field.name_offset, field.name_len)
            || !is_within(size, field.value_offset, field.value_len)
        {
            return false;
        }
    }
    true
}

/// Returns whether every name and value is valid UTF-8, checked one by one.
fn each_is_utf8(fields: &[WtField], texts: &[u8]) -> bool
    ensures { MatchBool result (AreTextFields texts.now fields.now)
        (¬ (AreTextFields texts.now fields.now)) }
{
    for field in fields {
        if texts_of(field, texts).is_none() {
            return false;
        }
    }
    true
}

/// Returns whether all fields are pairs of texts.
///
/// Mostly the bytes are ASCII and contain little besides the texts. So they are tested at once,
/// unless they are many.
pub(crate) fn are_texts(fields: &[WtField], texts: &[u8]) -> bool
    ensures { MatchBool result (AreTextFields texts.now fields.now)
        (¬ (AreTextFields texts.now fields.now)) }
{
    if is_short_ascii(texts, fields.len().saturating_mul(MAX_BYTES_PER_FIELD)) {
        return are_within(fields, texts.len());
    }
    each_is_utf8(fields, texts)
}
