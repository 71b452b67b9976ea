//! Lists of strings, and one string, as structured fields (RFC 9651, sections 3.1, 3.3.3 and 4.2).
ghost use Rattle.std.specs.Prelude.{◌≡◌, ℕ, [], ◌++◌, map, IfOk, OnOk, OnErr, option_map, true, false};
ghost use Rattle.wtp_subprotocols.specs.Strings.{is_escaped as is_escaped_byte, is_string_byte as is_byte_of_string};
ghost use Rattle.std.specs.Prelude.{◌==◌, Some, None, codes, if◌then◌else◌};
ghost use Rattle.std.specs.List.{list_any};
ghost use Rattle.wtp_subprotocols.specs.Strings.{is_lower as is_lower_byte, is_key_byte as is_byte_of_key};
ghost use Rattle.wtp_subprotocols.specs.Strings.{is_value_byte as is_byte_of_value, state_after, state_closed};
ghost use Rattle.wtp_subprotocols.specs.Strings.{next_state, may_end as may_end_in, values_after, current_after};
ghost use Rattle.wtp_subprotocols.specs.Strings.{strings_after, string_of, written_string, is_started, begins_string};
ghost use Rattle.wtp_subprotocols.specs.Strings.{is_string as is_string_text};

use std::alloc::{AllocError, Global};
use std::mem::replace;

/// The place of a byte in a list of strings.
#[derive(Clone, Copy, Drop)]
pub(crate) enum State {
    /// It is before the first string.
    Start,
    /// It is after a comma.
    Before,
    /// It is in a string.
    Inside,
    /// It is after a backslash.
    Escape,
    /// It is right after a string, or after the string of a parameter.
    Closed,
    /// It is before the key of a parameter.
    Key,
    /// It is in a key.
    InKey,
    /// It is before the value of a parameter.
    Value,
    /// It is in a value that is no string.
    InValue,
    /// It is in a string of a parameter.
    Quoted,
    /// It is after a backslash in a string of a parameter.
    QuotedEscape,
    /// It is after the percent sign that begins a display string of a parameter.
    Percent,
    /// It is in a display string of a parameter.
    InDisplay,
    /// It is after a string, its parameters and a space or a tab.
    After,
}

impl State {
    /// Returns the state after a byte of a list, or of one string, or `None` if the byte is invalid.
    fn next(self, byte: u8, list: bool) -> Option<State>
        ensures { result ≡ next_state list self byte }
    {
        match self {
            State::Start => match byte {
                b'"' => Some(State::Inside),
                b' ' => Some(State::Start),
                _ => None,
            },
            State::Before => match byte {
                b'"' => Some(State::Inside),
                b' ' | b'\t' => Some(State::Before),
                _ => None,
            },
            State::Inside => next_inside(byte),
            State::Escape => State::Inside.if_true(is_escaped(byte)),
            State::Closed => next_closed(byte, list),
            State::Key => next_key(byte),
            State::InKey => next_in_key(byte, list),
            State::Value => next_value(byte),
            State::InValue => next_in_value(byte, list),
            State::Quoted => next_quoted(byte),
            State::QuotedEscape => State::Quoted.if_true(is_escaped(byte)),
            State::Percent => State::InDisplay.if_true(byte == b'"'),
            State::InDisplay => next_in_display(byte),
            State::After => next_after(byte, list),
        }
    }

    /// Returns the state if the condition holds.
    fn if_true(self, condition: bool) -> Option<State>
        ensures { result ≡ (if condition then Some self else None) }
    {
        if condition { Some(self) } else { None }
    }

    /// Returns whether a list, or one string, may end here.
    fn may_end(self, list: bool) -> bool
        ensures { result ≡ may_end_in list self }
    {
        match self {
            State::Start => list,
            State::Closed | State::InKey | State::InValue | State::After => true,
            State::Before | State::Inside | State::Escape => false,
            State::Key | State::Value | State::Quoted | State::QuotedEscape => false,
            State::Percent | State::InDisplay => false,
        }
    }
}

/// Returns the state after a byte of a string.
fn next_inside(byte: u8) -> Option<State>
    ensures { result ≡ next_state true State.Inside byte }
{
    if byte == b'"' {
        Some(State::Closed)
    } else if byte == b'\\' {
        Some(State::Escape)
    } else if is_string_byte(byte) {
        Some(State::Inside)
    } else {
        None
    }
}

/// Returns the state after a byte that follows a string or a parameter.
fn next_closed(byte: u8, list: bool) -> Option<State>
    ensures { result ≡ state_closed list byte }
{
    if byte == b';' {
        Some(State::Key)
    } else {
        next_after(byte, list)
    }
}

/// Returns the state after a byte before the key of a parameter.
fn next_key(byte: u8) -> Option<State>
    ensures { result ≡ next_state true State.Key byte }
{
    if is_lower(byte) || byte == b'*' {
        Some(State::InKey)
    } else {
        State::Key.if_true(byte == b' ')
    }
}

/// Returns the state after a byte of a key, or one that follows it.
fn next_in_key(byte: u8, list: bool) -> Option<State>
    ensures { result ≡ next_state list State.InKey byte }
{
    if is_key_byte(byte) {
        Some(State::InKey)
    } else if byte == b'=' {
        Some(State::Value)
    } else {
        next_closed(byte, list)
    }
}

/// Returns the state after the first byte of a parameter's value.
fn next_value(byte: u8) -> Option<State>
    ensures { result ≡ next_state true State.Value byte }
{
    if byte == b'"' {
        Some(State::Quoted)
    } else if byte == b'%' {
        Some(State::Percent)
    } else {
        State::InValue.if_true(is_value_byte(byte))
    }
}

/// Returns the state after a byte of a value that is no string, or one that follows it.
fn next_in_value(byte: u8, list: bool) -> Option<State>
    ensures { result ≡ next_state list State.InValue byte }
{
    if is_value_byte(byte) {
        Some(State::InValue)
    } else {
        next_closed(byte, list)
    }
}

/// Returns the state after a byte of a string of a parameter.
fn next_quoted(byte: u8) -> Option<State>
    ensures { result ≡ next_state true State.Quoted byte }
{
    if byte == b'"' {
        Some(State::Closed)
    } else if byte == b'\\' {
        Some(State::QuotedEscape)
    } else {
        State::Quoted.if_true(is_string_byte(byte))
    }
}

/// Returns the state after a byte of a display string of a parameter.
fn next_in_display(byte: u8) -> Option<State>
    ensures { result ≡ next_state true State.InDisplay byte }
{
    if byte == b'"' {
        Some(State::Closed)
    } else {
        State::InDisplay.if_true(is_string_byte(byte))
    }
}

/// Returns whether a byte is a lower-case letter.
fn is_lower(byte: u8) -> bool
    ensures { result ≡ is_lower_byte byte }
{
    byte.is_ascii_lowercase()
}

/// Returns whether a byte may be in a key.
fn is_key_byte(byte: u8) -> bool
    ensures { result ≡ is_byte_of_key byte }
{
    is_lower(byte) || byte.is_ascii_digit() || is_key_mark(byte)
}

/// Returns whether a byte is one of these other than letters and digits.
fn is_key_mark(byte: u8) -> bool
    ensures { result ≡ list_any (λ mark. mark == byte) (codes "_-.*") }
{
    b"_-.*".contains(&byte)
}

/// Returns whether a byte may be in a value that is no string.
fn is_value_byte(byte: u8) -> bool
    ensures { result ≡ is_byte_of_value byte }
{
    is_key_byte(byte) || byte == b'=' || byte.is_ascii_uppercase() || is_value_mark(byte)
}

/// Returns whether a byte is one of these that are in no key.
fn is_value_mark(byte: u8) -> bool
    ensures { result ≡ list_any (λ mark. mark == byte) (codes "!#$%&'+^`|~:/?@") }
{
    b"!#$%&'+^`|~:/?@".contains(&byte)
}

/// Returns the state after a byte that follows a string.
fn next_after(byte: u8, list: bool) -> Option<State>
    ensures { result ≡ state_after list byte }
{
    if byte == b' ' || (list && byte == b'\t') {
        Some(State::After)
    } else if list && byte == b',' {
        Some(State::Before)
    } else {
        None
    }
}

/// Returns whether a byte is written with a backslash.
fn is_escaped(byte: u8) -> bool
    ensures { result ≡ is_escaped_byte byte }
{
    byte == b'"' || byte == b'\\'
}

/// Returns whether a byte may be in a string.
fn is_string_byte(byte: u8) -> bool
    ensures { result ≡ is_byte_of_string byte }
{
    byte > 31 && byte < 127
}

/// Appends a byte of a string to `current`, or moves that string to the values at its end.
#[tactic(auto, using(crate::proofs::StringLemmas::pushed))]
fn keep(
    alloc: Global,
    values: &mut Vec<Vec<u8>>,
    current: &mut Vec<u8>,
    state: State,
    byte: u8,
) -> Result<(), AllocError>
    ensures values { OnOk result (map (λ v. v.items) values.new.items
        ≡ values_after state byte current.old.items (map (λ v. v.items) values.old.items)) }
    ensures current { OnOk result (current.new.items ≡ current_after state byte current.old.items) }
    ensures memory { OnErr result (is_started state ≡ true) }
{
    match state {
        State::Escape => current.push(byte)?,
        State::Inside => {
            if byte == b'"' {
                values.push(replace(current, Vec::new(alloc)))?;
            } else if byte != b'\\' {
                current.push(byte)?;
            }
        }
        _ => {}
    }
    Ok(())
}

/// Returns the strings of a list, or the only string, or `None` if the text is invalid. Allocates
/// nothing before the first string.
pub(crate) fn read_strings(
    alloc: Global,
    text: &[u8],
    list: bool,
) -> Result<Option<Vec<Vec<u8>>>, AllocError>
    ensures found { IfOk result (λ found. option_map (λ values. map (λ v. v.items) values.items) found
        ≡ strings_after list State.Start [] [] text.now) }
    ensures memory { OnErr result (begins_string text.now ≡ true) }
{
    let mut state = State::Start;
    let mut values = Vec::new(alloc);
    let mut current = Vec::new(alloc);
    for byte in text {
        let Some(next) = state.next(*byte, list) else {
            return Ok(None);
        };
        keep(alloc, &mut values, &mut current, state, *byte)?;
        state = next;
    }
    if state.may_end(list) {
        Ok(Some(values))
    } else {
        Ok(None)
    }
}

/// Returns the value of one string, or `None` if the text is invalid.
#[tactic(auto, using(crate::proofs::StringLemmas::last_pushed))]
pub(crate) fn read_string(alloc: Global, text: &[u8]) -> Result<Option<Vec<u8>>, AllocError>
    ensures found { IfOk result (λ found. option_map (λ value. value.items) found ≡ string_of text.now) }
    ensures memory { OnErr result (begins_string text.now ≡ true) }
{
    match read_strings(alloc, text, false)? {
        Some(mut values) => Ok(values.pop()),
        None => Ok(None),
    }
}

/// Returns whether all bytes may be in a string.
pub(crate) fn is_string(value: &[u8]) -> bool
    ensures { result ≡ is_string_text value.now }
{
    for byte in value {
        if !is_string_byte(*byte) {
            return false;
        }
    }
    true
}

/// Appends a string, with its quotes.
pub(crate) fn write_string(text: &mut Vec<u8>, value: &[u8]) -> Result<(), AllocError>
    ensures { OnOk result (text.new.items ≡ text.old.items ++ written_string value.now) }
{
    text.push(b'"')?;
    for byte in value {
        if is_escaped(*byte) {
            text.push(b'\\')?;
        }
        text.push(*byte)?;
    }
    text.push(b'"')?;
    Ok(())
}
