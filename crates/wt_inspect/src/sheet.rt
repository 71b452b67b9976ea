//! Lines that are not written yet.
ghost use Rattle.std.specs.Prelude.{◌≡◌, ◌+◌, ℕ, IfOk, length};
ghost use Rattle.wt_inspect.specs.Sheets.{AddsTo, DrawsLines, HasSheet, lines_for};
ghost use Rattle.wt_inspect.specs.declared.arguments.Output.{Output};
ghost use Rattle.wt_inspect.specs.declared.arguments.Output.TheVariants.{Json as JsonOutput, Text as TextOutput};
ghost use Rattle.wt_inspection_views.specs.Lines.{HasTextLines};

use std::alloc::{AllocError, Global};
use wt_inspection::item::Warning;
use wt_inspection::{End, Item};
use wt_inspection_views::json_lines::Origin;
use wt_inspection_views::{json_lines, text};

/// Lines of text or of JSON. A failed allocation is recorded, and [`take`](Sheet::take) reports it.
#[derive(Drop)]
pub enum Sheet {
    /// Lines of text.
    Text(text::Lines),
    /// Lines of JSON.
    Json(json_lines::Lines),
}

impl Sheet {
    /// Creates a sheet of text without lines.
    pub fn text(alloc: Global) -> Self
        ensures { HasSheet TextOutput 0 result }
    {
        Sheet::Text(text::Lines::new(alloc))
    }

    /// Creates a sheet of JSON without lines.
    pub fn json(alloc: Global) -> Self
        ensures { HasSheet JsonOutput 0 result }
    {
        Sheet::Json(json_lines::Lines::new(alloc))
    }

    /// Creates a sheet of JSON without lines. Each line begins with the members of `origin`.
    pub fn about(alloc: Global, origin: Origin) -> Self
        ensures { HasSheet JsonOutput 0 result }
    {
        Sheet::Json(json_lines::Lines::about(alloc, Some(origin)))
    }

    /// Returns the length of the lines, in bytes.
    pub fn len(&self) -> usize {
        match self {
            Sheet::Text(lines) => lines.len(),
            Sheet::Json(lines) => lines.len(),
        }
    }

    /// Appends the lines of an item of `bytes`, and of the warnings about it. If `payload` is set,
    /// payload bytes are shown too.
    pub fn add_item(&mut self, item: &Item, bytes: &[u8], payload: bool, warnings: &[Warning])
        ensures { (output : Output) → AddsTo output
            (lines_for output payload bytes.now item.now + length warnings.now) self.old self.new }
    {
        match self {
            Sheet::Text(lines) => text::add_item_lines(lines, item, bytes, payload, warnings),
            Sheet::Json(lines) => json_lines::add_item_lines(lines, item, bytes, payload, warnings),
        }
    }

    /// Appends the lines of warnings.
    pub fn add_warnings(&mut self, warnings: &[Warning])
        ensures { (output : Output) → AddsTo output (length warnings.now) self.old self.new }
    {
        match self {
            Sheet::Text(lines) => text::add_warnings(lines, warnings),
            Sheet::Json(lines) => json_lines::add_warnings(lines, warnings),
        }
    }

    /// Appends the line that says how an input of this length ends.
    pub fn add_end(&mut self, end: End, length: usize)
        ensures { (output : Output) → AddsTo output 1 self.old self.new }
    {
        match self {
            Sheet::Text(lines) => text::add_end(lines, end, length),
            Sheet::Json(lines) => json_lines::add_end(lines, end, length),
        }
    }

    /// Returns the lines, those of text with their colours if `colors` is set, and leaves none; or
    /// [`AllocError`] if an allocation failed.
    pub fn take(&mut self, colors: bool) -> Result<Vec<u8>, AllocError>
        ensures { IfOk result (λ written. (output : Output) (n : ℕ) → HasSheet output n self.old
            → DrawsLines output «colors» n written.items × HasSheet output 0 self.new) }
    {
        match self {
            Sheet::Text(lines) => take_text(lines, colors),
            Sheet::Json(lines) => lines.take(),
        }
    }
}

/// Returns lines of text, with their colours if `colors` is set, and leaves none; or [`AllocError`]
/// if an allocation failed.
fn take_text(lines: &mut text::Lines, colors: bool) -> Result<Vec<u8>, AllocError>
    ensures draws { IfOk result (λ written. (n : ℕ) → HasTextLines n lines.old
        → DrawsLines TextOutput «colors» n written.items) }
    ensures none { HasTextLines 0 lines.new }
{
    if colors {
        return lines.take_painted();
    }
    let text = lines.take()?;
    Ok(text.into_bytes())
}
