//! Displays bytes within a line.
ghost use Rattle.std.specs.Prelude.{◌≡◌, ◌<◌, ◌++◌, IfNone, IfOk, IfSome, IsTrue, OnErr, false, string_bytes};
ghost use Rattle.std.specs.Str.{NoCharPasses};
ghost use Rattle.std.specs.List.{flat_map, list_any};
ghost use Rattle.wt_inspection_views.specs.Characters.{needs_escape};
ghost use Rattle.wt_inspection_views.specs.Escaped.{AddsFront, AddsShown, AppendsFront, HasNoBackslash, IsPlainText, digit_of};
ghost use Rattle.wt_inspection_views.specs.Escaped.{escaped_byte, hex_byte, is_other_byte, is_plain_byte, name_byte};

use crate::characters::needs_escape;
use std::alloc::AllocError;

/// Appends bytes to a line. They are appended unchanged if they are UTF-8 without backslashes and
/// without characters that need an escape: control characters, invisible ones, those that change
/// the direction of text, and the mark of lines. Otherwise each byte other than printable ASCII,
/// and each backslash, is appended as `\xNN`. No character that needs an escape is ever appended,
/// and different bytes have different displayed forms
/// ([`shown_bytes_are_told_apart`](crate::laws::shown_bytes_are_told_apart)).
///
/// Returns [`AllocError`] if allocation fails. Of the displayed form only the first bytes, or none,
/// are then appended.
pub fn add_escaped(line: &mut String, bytes: &[u8]) -> Result<(), AllocError>
    ensures added { IfOk result (λ _.
        AddsShown bytes.now (string_bytes line.old) (string_bytes line.new)) }
    ensures begun { OnErr result
        (AddsFront bytes.now (string_bytes line.old) (string_bytes line.new)) }
{
    match plain_text(bytes) {
        Some(text) => line.push_str(text),
        None => add_each(line, bytes),
    }
}

/// Appends a name: each byte other than printable ASCII, each blank and each backslash as `\xNN`. So
/// a name is never written from right to left, and the first blank after it ends it.
///
/// Returns [`AllocError`] if allocation fails.
pub fn add_name(line: &mut String, name: &[u8]) -> Result<(), AllocError>
    ensures { IfOk result (λ _. string_bytes line.new
        ≡ string_bytes line.old ++ flat_map name_byte name.now) }
{
    for byte in name {
        match *byte {
            b' ' => line.push_str("\\x20")?,
            byte => add_byte(line, byte)?,
        }
    }
    Ok(())
}

/// Returns bytes as text if they are UTF-8 without backslashes and characters that need an escape.
fn plain_text(bytes: &[u8]) -> Option<&str>
    ensures plain { IfSome result (λ t. (t.now ≡ bytes.now) × IsPlainText bytes.now) }
    ensures other { IfNone result (¬ (IsPlainText bytes.now)) }
{
    match str::from_utf8(bytes) {
        Ok(text) if is_plain(text) => Some(text),
        _ => None,
    }
}

/// Returns whether a text contains no characters that need an escape, and no backslashes.
fn is_plain(text: &str) -> bool
    ensures plain { IsTrue result
        → NoCharPasses needs_escape text.now × HasNoBackslash text.now }
    ensures other { NoCharPasses needs_escape text.now → HasNoBackslash text.now
        → IsTrue result }
{
    needs_no_escape(text) && !text.as_bytes().contains(&b'\\')
}

/// Returns whether a text contains no characters that need an escape.
#[tactic(auto, using(crate::proofs::CleanLemmas::ascii_needs_none))]
pub(crate) fn needs_no_escape(text: &str) -> bool
    ensures none { IsTrue result → NoCharPasses needs_escape text.now }
    ensures some { NoCharPasses needs_escape text.now → IsTrue result }
{
    if has_other_byte(text.as_bytes()) {
        chars_need_none(text)
    } else {
        true
    }
}

/// Returns whether no character of a text needs an escape.
fn chars_need_none(text: &str) -> bool
    ensures none { IsTrue result → NoCharPasses needs_escape text.now }
    ensures some { NoCharPasses needs_escape text.now → IsTrue result }
{
    !text.chars().any(|c| needs_escape(c))
}

/// Returns whether a byte is not printable ASCII.
fn has_other_byte(bytes: &[u8]) -> bool
    ensures { result ≡ list_any is_other_byte bytes.now }
{
    bytes.iter().any(|byte| is_other_byte(*byte))
}

/// Returns whether a byte is not printable ASCII.
fn is_other_byte(byte: u8) -> bool
    ensures { result ≡ is_other_byte byte }
{
    byte < 0x20 || byte >= 0x7f
}

/// Appends each byte, escaped unless it is plain.
fn add_each(line: &mut String, bytes: &[u8]) -> Result<(), AllocError>
    ensures added { IfOk result (λ _. string_bytes line.new
        ≡ string_bytes line.old ++ flat_map escaped_byte bytes.now) }
    ensures begun { OnErr result (AppendsFront (flat_map escaped_byte bytes.now)
        (string_bytes line.old) (string_bytes line.new)) }
{
    for byte in bytes {
        add_byte(line, *byte)?;
    }
    Ok(())
}

/// Appends a byte, escaped unless it is plain.
fn add_byte(line: &mut String, byte: u8) -> Result<(), AllocError>
    ensures added { IfOk result
        (λ _. string_bytes line.new ≡ string_bytes line.old ++ escaped_byte byte) }
    ensures begun { OnErr result
        (AppendsFront (escaped_byte byte) (string_bytes line.old) (string_bytes line.new)) }
{
    if is_printable(byte) {
        line.push(byte as char)?;
        return Ok(());
    }
    line.push_str("\\x")?;
    line.push(hex_digit(byte / 16))?;
    line.push(hex_digit(byte % 16))?;
    Ok(())
}

/// Returns whether a byte is printable ASCII other than a backslash.
fn is_printable(byte: u8) -> bool
    ensures { result ≡ is_plain_byte byte }
{
    byte >= 0x20 && byte < 0x7f && byte != b'\\'
}

/// Appends the two hexadecimal digits of a byte.
pub(crate) fn add_hex_byte(words: &mut String, byte: u8) -> Result<(), AllocError>
    ensures { IfOk result
        (λ _. string_bytes words.new ≡ string_bytes words.old ++ hex_byte byte) }
{
    words.push(hex_digit(byte / 16))?;
    words.push(hex_digit(byte % 16))
}

/// Returns the character of a hexadecimal digit.
fn hex_digit(value: u8) -> char
    requires { value < 16 }
    ensures digit { result ≡ digit_of value }
    ensures ascii { result < 128 }
{
    let digit = if value < 10 {
        b'0' + value
    } else {
        b'a' + (value - 10)
    };
    digit as char
}
