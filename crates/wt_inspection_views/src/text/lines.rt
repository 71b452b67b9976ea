//! Lines of text that record a failed allocation.
ghost use Rattle.std.specs.Prelude.{◌≡◌, ◌+◌, ℕ, false, true, IfOk, IsTrue, OnErr, OnOk, length, string_bytes};
ghost use Rattle.wt_inspection_views.specs.Escaped.{AreLines, line_count};
ghost use Rattle.wt_inspection_views.specs.Lines.{Gains, HasTextLines, TakesPainted};
ghost use Rattle.wt_inspection_views.specs.Painting.{IsPainted};

use super::kept::{KeptWords, place_len};
use super::words::{add_indented_words, add_labelled_words, add_size_words, add_warning_words};
use crate::latch::Latch;
use crate::painting::Style;
use crate::plain::PlainText;
use crate::shape::{CapsuleShape, FrameShape, Shape};
use std::alloc::{AllocError, Global};
use std::mem;
use wt_inspection_model::item::{CapsuleItem, FrameItem, Warning};

/// Lines of text. A failed allocation is recorded, and [`take`](Lines::take) and
/// [`into_text`](Lines::into_text) report it, so what appends lines returns nothing.
#[derive(Drop)]
pub struct Lines {
    /// The allocator of the lines.
    pub(super) alloc: Global,
    text: PlainText,
    /// Room for the words of a line.
    words: String,
    /// The words of the last item without contents.
    kept: Option<KeptWords>,
    is_whole: Latch,
}

impl Lines {
    /// Creates an empty list of lines.
    pub fn new(alloc: Global) -> Self
        ensures whole { result.is_whole ≡ true }
        ensures lines { line_count result.text ≡ 0 }
        ensures none { HasTextLines 0 result }
    {
        Lines {
            alloc,
            text: PlainText::new(alloc),
            words: String::new(alloc),
            kept: None,
            is_whole: Latch::new(),
        }
    }

    /// Returns the length of the text, in bytes.
    pub fn len(&self) -> usize
        ensures { result ≡ length self.now.text }
    {
        self.text.len()
    }

    /// Returns the text and leaves none, or [`AllocError`] if an allocation failed.
    pub fn take(&mut self) -> Result<String, AllocError>
        ensures lines { IfOk result (λ t. AreLines (string_bytes t)) }
        ensures count { (n : ℕ) → HasTextLines n self.old
            → IfOk result (λ t. line_count (string_bytes t) ≡ n) }
        ensures none { HasTextLines 0 self.new }
    {
        mem::replace(self, Lines::new(self.alloc)).into_text()
    }

    /// Returns the text with the escape sequences of its styles and leaves none, or [`AllocError`]
    /// if an allocation failed.
    pub fn take_painted(&mut self) -> Result<Vec<u8>, AllocError>
        ensures painted { IfOk result (λ painted. TakesPainted self.old painted.items) }
        ensures none { HasTextLines 0 self.new }
    {
        mem::replace(self, Lines::new(self.alloc)).into_painted()
    }

    /// Returns the text with the escape sequences of its styles, or [`AllocError`] if an allocation
    /// failed.
    fn into_painted(self) -> Result<Vec<u8>, AllocError>
        ensures whole { IfOk result (λ _. IsTrue self.is_whole × AreLines self.text) }
        ensures painted { IfOk result (λ painted. IsPainted self.text painted.items) }
    {
        let text = self.is_whole.finish(self.text)?;
        text.into_painted()
    }

    /// Records that an allocation failed.
    pub(super) fn mark_failed(&mut self)
        ensures { self.new.is_whole ≡ false }
    {
        self.is_whole.mark_failed();
    }

    /// Appends a line with these words.
    pub(super) fn add(&mut self, words: &str)
        ensures { Gains 1 self.old self.new }
    {
        self.add_styled(Style::Plain, words)
    }

    /// Appends a line with these words, in this style.
    fn add_styled(&mut self, style: Style, words: &str)
        ensures { Gains 1 self.old self.new }
    {
        let added = self.text.add_styled(style, words);
        self.is_whole.note(added);
    }

    /// Appends a line with allocated words. Records a failed allocation of the words.
    pub(super) fn add_formatted(&mut self, words: Result<String, AllocError>)
        ensures { Gains 1 self.old self.new }
    {
        self.add_formatted_styled(Style::Plain, words)
    }

    /// Appends a line with allocated words, in this style. Records a failed allocation of the words.
    fn add_formatted_styled(&mut self, style: Style, words: Result<String, AllocError>)
        ensures { Gains 1 self.old self.new }
    {
        match words {
            Ok(words) => self.add_styled(style, words.as_str()),
            Err(_) => self.mark_failed(),
        }
    }

    /// Appends the first line of an item: its offset, its kind, and details.
    pub(super) fn add_head(&mut self, at: usize, what: &str, more: Result<String, AllocError>)
        ensures { Gains 1 self.old self.new }
    {
        self.add_head_styled(Style::Item, at, what, more)
    }

    /// Appends the line of a fault: its offset, and details.
    pub(super) fn add_fault(&mut self, at: usize, more: Result<String, AllocError>)
        ensures { Gains 1 self.old self.new }
    {
        self.add_head_styled(Style::Fault, at, "fault", more)
    }

    /// Appends the line of a whole input of this length.
    pub(super) fn add_whole(&mut self, length: usize)
        ensures { Gains 1 self.old self.new }
    {
        let words = format!(in self.alloc; "{length:<5} end");
        self.add_formatted_styled(Style::Item, words)
    }

    /// Appends a line with an offset, what is there, and details, in this style.
    fn add_head_styled(
        &mut self,
        style: Style,
        at: usize,
        what: &str,
        more: Result<String, AllocError>,
    )
        ensures { Gains 1 self.old self.new }
    {
        match more {
            Ok(more) => {
                let words = format!(in self.alloc; "{at:<5} {what:<18} {more}");
                self.add_formatted_styled(style, words)
            }
            Err(_) => self.mark_failed(),
        }
    }

    /// Appends the line of an item with its number of bytes.
    pub(super) fn add_size(&mut self, at: usize, what: &str, size: u64)
        ensures { Gains 1 self.old self.new }
    {
        self.words.clear();
        let built = add_size_words(&mut self.words, at, what, size);
        self.add_words(Style::Item, built)
    }

    /// Appends the first line of a frame. `label` says what its fields are, if it has some.
    pub(super) fn add_frame(&mut self, at: usize, frame: &FrameItem, label: Option<&str>)
        ensures { Gains 1 self.old self.new }
    {
        let frame = FrameShape::of(frame);
        match label {
            Some(label) => self.add_labelled(at, &frame, label),
            None => self.add_shape(at, &Shape::Frame(frame)),
        }
    }

    /// Appends the first line of a frame with fields, which `label` describes.
    fn add_labelled(&mut self, at: usize, frame: &FrameShape, label: &str)
        ensures { Gains 1 self.old self.new }
    {
        self.words.clear();
        let built = add_labelled_words(&mut self.words, at, frame, label);
        self.add_words(Style::Item, built)
    }

    /// Appends the first line of a capsule. It is indented, unless it is an item with an offset.
    pub(super) fn add_capsule(&mut self, at: Option<usize>, capsule: &CapsuleItem)
        ensures { Gains 1 self.old self.new }
    {
        let capsule = CapsuleShape::of(capsule);
        match at {
            Some(at) => self.add_shape(at, &Shape::Capsule(capsule)),
            None => self.add_indented(&capsule),
        }
    }

    /// Appends the first line of a capsule in a frame.
    fn add_indented(&mut self, capsule: &CapsuleShape)
        ensures { Gains 1 self.old self.new }
    {
        self.words.clear();
        let built = add_indented_words(&mut self.words, capsule);
        self.add_words(Style::Plain, built)
    }

    /// Appends the first line of an item of this shape.
    fn add_shape(&mut self, at: usize, shape: &Shape)
        ensures { Gains 1 self.old self.new }
    {
        let added = self.try_shape(at, shape);
        self.is_whole.note(added);
    }

    /// Appends the first line of an item of this shape.
    ///
    /// Returns [`AllocError`] if allocation fails. The text is then unchanged.
    fn try_shape(&mut self, at: usize, shape: &Shape) -> Result<(), AllocError>
        ensures one { OnOk result (line_count self.new.text ≡ line_count self.old.text + 1) }
        ensures kept { OnErr result (self.new.text ≡ self.old.text) }
        ensures whole { self.new.is_whole ≡ self.old.is_whole }
    {
        let place = place_len(at);
        match &self.kept {
            Some(kept) if kept.follows(place, shape) => {
                return self
                    .text
                    .add_numbered(Style::Item, at as u64, kept.words(place, shape));
            }
            _ => {}
        }
        let kept = KeptWords::new(self.alloc, place, shape)?;
        self.text
            .add_numbered(Style::Item, at as u64, kept.words(place, shape))?;
        self.kept = Some(kept);
        Ok(())
    }

    /// Appends the line of a warning.
    pub(super) fn add_warning(&mut self, warning: &Warning)
        ensures { Gains 1 self.old self.new }
    {
        self.words.clear();
        let built = add_warning_words(&mut self.words, warning);
        self.add_words(style_of(warning), built)
    }

    /// Appends a line with the words that were built, in this style, unless an allocation failed.
    fn add_words(&mut self, style: Style, built: Result<(), AllocError>)
        ensures { Gains 1 self.old self.new }
    {
        match built {
            Ok(()) => {
                let added = self.text.add_styled(style, self.words.as_str());
                self.is_whole.note(added);
            }
            Err(_) => self.mark_failed(),
        }
    }

    /// Returns the text, or [`AllocError`] if an allocation failed.
    pub fn into_text(self) -> Result<String, AllocError>
        ensures lines { IfOk result (λ t. AreLines (string_bytes t)) }
        ensures count { IfOk result (λ t. IsTrue self.is_whole
            × (line_count (string_bytes t) ≡ line_count self.text)) }
    {
        self.is_whole.finish(self.text.into_text())
    }
}

/// Returns the style of the line of a warning.
fn style_of(warning: &Warning) -> Style {
    if warning.rule.is_hint() {
        Style::Hint
    } else {
        Style::Warning
    }
}
