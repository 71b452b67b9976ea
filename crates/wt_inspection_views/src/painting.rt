//! Lines that a terminal shows in colour.
ghost use Rattle.std.specs.Prelude.{◌≡◌, ◌++◌, ◌∷◌, [], List, ℕ, IfOk};
ghost use Rattle.wt_inspection_views.specs.Escaped.{AreLines};
ghost use Rattle.wt_inspection_views.specs.Painting.{IsPainted, IsPaintedIn, IsPaintedTo, reset_of, sequence_of};

use std::alloc::{AllocError, Global};

/// How a terminal shows a line.
#[derive(Clone, Copy, PartialEq)]
pub enum Style {
    /// As it shows other text.
    Plain,
    /// Bold: a heading.
    Heading,
    /// Cyan: the first line of an item.
    Item,
    /// Yellow: a warning.
    Warning,
    /// Blue: a hint.
    Hint,
    /// Red: a fault.
    Fault,
}

/// Where a line begins that has a style.
#[derive(Clone, Copy)]
pub(crate) struct StyledLine {
    /// The offset of the line in its text.
    pub(crate) at: usize,
    /// Its style.
    pub(crate) style: Style,
}

/// Returns a text with the escape sequences of these lines, each at the beginning and the end of
/// its line.
///
/// Returns [`AllocError`] if allocation fails.
pub(crate) fn paint(
    alloc: Global,
    text: &[u8],
    styled: &[StyledLine],
) -> Result<Vec<u8>, AllocError>
    requires { AreLines text.now }
    ensures { IfOk result (λ painted. IsPainted text.now painted.items) }
{
    let mut painted = Vec::with_capacity(alloc, text.len())?;
    let mut line = None;
    let mut at = 0;
    for byte in text {
        line = add_byte(&mut painted, line, style_at(styled, at), *byte)?;
        at += 1;
    }
    Ok(painted)
}

/// Returns the style of the line at this offset.
fn style_at(styled: &[StyledLine], at: usize) -> Style {
    match styled.get(styled.partition_point(|line| line.at < at)) {
        Some(line) if line.at == at => line.style,
        _ => Style::Plain,
    }
}

/// Appends a byte of a text, after the sequence of `next` if it is the first of its line. `line` is
/// the style of its line otherwise. Returns the style of the line, or `None` if this byte ends it.
fn add_byte(
    painted: &mut Vec<u8>,
    line: Option<Style>,
    next: Style,
    byte: u8,
) -> Result<Option<Style>, AllocError>
    ensures { IfOk result (λ after. (text : List ℕ) → IsPaintedTo text line painted.old.items
        → IsPaintedTo (text ++ byte ∷ []) after painted.new.items) }
{
    match line {
        Some(style) => add_to_line(painted, style, byte),
        None => {
            painted.extend_from_slice(sequence_of(next))?;
            add_to_line(painted, next, byte)
        }
    }
}

/// Appends a byte of a line with this style, and ends the style before a line feed. Returns the
/// style of the line, or `None` if this byte ends it.
fn add_to_line(painted: &mut Vec<u8>, style: Style, byte: u8) -> Result<Option<Style>, AllocError>
    ensures { IfOk result (λ after. (text : List ℕ)
        → IsPaintedIn text style painted.old.items
        → IsPaintedTo (text ++ byte ∷ []) after painted.new.items) }
{
    if byte == b'\n' {
        painted.extend_from_slice(reset_of(style))?;
        painted.push(byte)?;
        return Ok(None);
    }
    painted.push(byte)?;
    Ok(Some(style))
}

/// Returns the escape sequence of a style.
fn sequence_of(style: Style) -> &'static [u8]
    ensures { result.now ≡ sequence_of style }
{
    match style {
        Style::Plain => b"",
        Style::Heading => b"\x1b[1m",
        Style::Item => b"\x1b[36m",
        Style::Warning => b"\x1b[33m",
        Style::Hint => b"\x1b[34m",
        Style::Fault => b"\x1b[31m",
    }
}

/// Returns the escape sequence that ends a style.
fn reset_of(style: Style) -> &'static [u8]
    ensures { result.now ≡ reset_of style }
{
    match style {
        Style::Plain => b"",
        _ => b"\x1b[0m",
    }
}
