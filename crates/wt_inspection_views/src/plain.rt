//! Text for a terminal.
ghost use Rattle.std.specs.Prelude.{◌≡◌, ◌+◌, ◌++◌, ℕ, List, [], IfOk, OnErr, length, decimal, string_bytes};
ghost use Rattle.std.specs.Str.{NoCharPasses};
ghost use Rattle.wt_inspection_views.specs.Characters.{needs_escape};
ghost use Rattle.wt_inspection_views.specs.Escaped.{AddsLine, AreLines, IsLine, line_count};
ghost use Rattle.wt_inspection_views.specs.Escaped.{line_mark};
ghost use Rattle.wt_inspection_views.specs.Painting.{IsPainted};

use crate::clean::CleanWords;
use crate::escaped::{add_escaped, needs_no_escape};
use crate::painting::{Style, StyledLine, paint};
use itoa::Buffer;
use std::alloc::{AllocError, Global};
use std::marker::Model;

/// The start of each line. A value of a peer never has it, so a line that a terminal wraps does not
/// look like a line of the text.
pub const LINE_MARK: &str = "\u{258c} ";

/// The length of the mark and of the line feed of a line, in bytes.
const LINE_OVERHEAD: usize = 5;

/// A text of lines. Each begins with [`LINE_MARK`] and ends with a line feed; nothing else of the
/// text is a mark, a control character or invisible.
#[derive(Drop)]
pub struct PlainText {
    alloc: Global,
    text: String,
    /// The lines that have a style, in their order.
    styled: Vec<StyledLine>,
}

// The bytes of the text.
impl Model for PlainText {
    ghost Value = { List ℕ };

    ghost view = { λ plain. string_bytes plain.text };

    ghost invariant = { λ plain. AreLines (string_bytes plain.text) };
}

impl PlainText {
    /// Creates an empty text.
    pub fn new(alloc: Global) -> Self
        ensures { result ≡ [] }
    {
        PlainText {
            alloc,
            text: String::new(alloc),
            styled: Vec::new(alloc),
        }
    }

    /// Returns the length of the text, in bytes.
    pub fn len(&self) -> usize
        ensures { result ≡ length self.now }
    {
        self.text.len()
    }

    /// Appends a line with these words. If a character of them needs an escape, they are appended
    /// as by [`add_escaped`].
    ///
    /// Returns [`AllocError`] if allocation fails. The text is then unchanged.
    pub fn add_line(&mut self, words: &str) -> Result<(), AllocError>
        ensures added { IfOk result (λ _. AddsLine words.now self.old self.new) }
        ensures one_line { IfOk result (λ _. line_count self.new ≡ line_count self.old + 1) }
        ensures kept { OnErr result (self.new ≡ self.old) }
    {
        push_line(self.alloc, &mut self.text, words)
    }

    /// Appends a line with these words, as by [`add_line`](PlainText::add_line), in this style.
    ///
    /// Returns [`AllocError`] if allocation fails. The text is then unchanged.
    pub fn add_styled(&mut self, style: Style, words: &str) -> Result<(), AllocError>
        ensures added { IfOk result (λ _. AddsLine words.now self.old self.new) }
        ensures one_line { IfOk result (λ _. line_count self.new ≡ line_count self.old + 1) }
        ensures kept { OnErr result (self.new ≡ self.old) }
    {
        push_styled(self.alloc, &mut self.text, &mut self.styled, style, words)
    }

    /// Appends a line in this style, whose words are a number and these after it.
    ///
    /// Returns [`AllocError`] if allocation fails. The text is then unchanged.
    pub(crate) fn add_numbered(
        &mut self,
        style: Style,
        number: u64,
        words: &CleanWords,
    ) -> Result<(), AllocError>
        ensures added { IfOk result
            (λ _. AddsLine (decimal number ++ words.now) self.old self.new) }
        ensures one_line { IfOk result (λ _. line_count self.new ≡ line_count self.old + 1) }
        ensures kept { OnErr result (self.new ≡ self.old) }
    {
        push_numbered(
            &mut self.text,
            &mut self.styled,
            style,
            number,
            words.as_str(),
        )
    }

    /// Returns the text with the escape sequences of its styles.
    ///
    /// Returns [`AllocError`] if allocation fails.
    pub fn into_painted(self) -> Result<Vec<u8>, AllocError>
        ensures painted { IfOk result (λ painted. IsPainted self painted.items) }
        ensures lines { AreLines self }
    {
        paint(self.alloc, self.text.as_bytes(), self.styled.as_slice())
    }

    /// Returns the text.
    pub fn into_text(self) -> String
        ensures text { string_bytes result ≡ self }
        ensures lines { AreLines (string_bytes result) }
    {
        self.text
    }
}

/// Appends a line with these words, and notes its style.
///
/// Returns [`AllocError`] if allocation fails. The text is then unchanged.
fn push_styled(
    alloc: Global,
    text: &mut String,
    styled: &mut Vec<StyledLine>,
    style: Style,
    words: &str,
) -> Result<(), AllocError>
    ensures added { IfOk result
        (λ _. AddsLine words.now (string_bytes text.old) (string_bytes text.new)) }
    ensures kept { OnErr result (string_bytes text.new ≡ string_bytes text.old) }
{
    if style == Style::Plain {
        return push_line(alloc, text, words);
    }
    styled.push(StyledLine {
        at: text.len(),
        style,
    })?;
    let added = push_line(alloc, text, words);
    if added.is_err() {
        let _ = styled.pop();
    }
    added
}

/// Appends a line whose words are a number and these, and notes its style. No character of the words
/// needs an escape.
///
/// Returns [`AllocError`] if allocation fails. The text is then unchanged.
fn push_numbered(
    text: &mut String,
    styled: &mut Vec<StyledLine>,
    style: Style,
    number: u64,
    words: &str,
) -> Result<(), AllocError>
    requires { NoCharPasses needs_escape words.now }
    ensures added { IfOk result (λ _.
        AddsLine (decimal number ++ words.now) (string_bytes text.old) (string_bytes text.new)) }
    ensures kept { OnErr result (string_bytes text.new ≡ string_bytes text.old) }
{
    styled.push(StyledLine {
        at: text.len(),
        style,
    })?;
    let added = add_digits(text, number, words);
    if added.is_err() {
        let _ = styled.pop();
    }
    added
}

/// Appends a line whose words are a number and these, of which no character needs an escape.
///
/// Returns [`AllocError`] if allocation fails. The text is then unchanged.
fn add_digits(text: &mut String, number: u64, words: &str) -> Result<(), AllocError>
    requires { NoCharPasses needs_escape words.now }
    ensures added { IfOk result (λ _.
        AddsLine (decimal number ++ words.now) (string_bytes text.old) (string_bytes text.new)) }
    ensures kept { OnErr result (string_bytes text.new ≡ string_bytes text.old) }
{
    let mut buffer = Buffer::new();
    add_both(text, buffer.format(number), words)
}

/// Appends a line with these words, in two pieces. No character of them needs an escape.
///
/// Returns [`AllocError`] if allocation fails. The text is then unchanged.
fn add_both(text: &mut String, first: &str, second: &str) -> Result<(), AllocError>
    requires { NoCharPasses needs_escape (first.now ++ second.now) }
    ensures added { IfOk result (λ _.
        AddsLine (first.now ++ second.now) (string_bytes text.old) (string_bytes text.new)) }
    ensures kept { OnErr result (string_bytes text.new ≡ string_bytes text.old) }
{
    let length = first.len().saturating_add(second.len());
    text.reserve(length.saturating_add(LINE_OVERHEAD))?;
    text.push_str(mark_text())?;
    text.push_str(first)?;
    text.push_str(second)?;
    text.push('\n')
}

/// Appends a line with these words.
///
/// Returns [`AllocError`] if allocation fails. The text is then unchanged.
fn push_line(alloc: Global, text: &mut String, words: &str) -> Result<(), AllocError>
    ensures added { IfOk result
        (λ _. AddsLine words.now (string_bytes text.old) (string_bytes text.new)) }
    ensures kept { OnErr result (string_bytes text.new ≡ string_bytes text.old) }
{
    if needs_no_escape(words) {
        add_plain(text, words)
    } else {
        let line = line_of(alloc, words)?;
        text.push_str(line.as_str())
    }
}

/// Appends a line with these words, of which no character needs an escape.
///
/// Returns [`AllocError`] if allocation fails. The text is then unchanged.
fn add_plain(text: &mut String, words: &str) -> Result<(), AllocError>
    requires { NoCharPasses needs_escape words.now }
    ensures added { IfOk result
        (λ _. AddsLine words.now (string_bytes text.old) (string_bytes text.new)) }
    ensures kept { OnErr result (string_bytes text.new ≡ string_bytes text.old) }
{
    text.reserve(words.len().saturating_add(LINE_OVERHEAD))?;
    text.push_str(mark_text())?;
    text.push_str(words)?;
    text.push('\n')
}

/// Returns a line with the displayed form of these words: the mark, that form, and a line feed.
fn line_of(alloc: Global, words: &str) -> Result<String, AllocError>
    requires { ¬ (NoCharPasses needs_escape words.now) }
    ensures { IfOk result (λ l. IsLine words.now (string_bytes l)) }
{
    let mut line = String::with_capacity(alloc, words.len().saturating_add(LINE_OVERHEAD))?;
    line.push_str(mark_text())?;
    add_escaped(&mut line, words.as_bytes())?;
    line.push('\n')?;
    Ok(line)
}

/// Returns the mark at the start of each line.
fn mark_text() -> &'static str
    ensures { result.now ≡ line_mark }
{
    LINE_MARK
}
