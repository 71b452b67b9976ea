//! Displays inspections as text, as lines of JSON, and as an HTML page.
//!
//! [`write_text`](text::write_text), [`write_json`](json_lines::write_json) and
//! [`write_html`](html::write_html) take an [`Inspection`](wt_inspection_model::item::Inspection)
//! and the bytes that were inspected. Their contracts state what bytes from a peer can never cause
//! in the output.
#![tactic(auto)]

ghost use Rattle.std.specs.Prelude.{◌≡◌, ◌++◌};
ghost use Rattle.wt_inspection_views.specs.TextLines.{bytes_at};

mod characters;
mod clean;
pub mod escaped;
pub mod html;
pub mod json_lines;
mod latch;
pub mod laws;
pub mod painting;
pub mod plain;
mod shape;
pub mod text;

use wt_inspection_model::item::{Item, Warning};

/// Returns `length` bytes of the input from offset `at`, or no bytes if fewer are present.
pub(crate) fn bytes_of(bytes: &[u8], at: usize, length: usize) -> &[u8]
    ensures { result.now ≡ bytes_at bytes.now at length }
{
    match bytes.get(at..) {
        Some(rest) if length <= rest.len() => &rest[..length],
        _ => &[],
    }
}

/// Splits warnings into those about `item` and the remaining ones. They must be in order of their
/// offsets, and none may be about an earlier item.
pub(crate) fn split_warnings<'a>(
    item: &Item,
    warnings: &'a [Warning],
) -> (&'a [Warning], &'a [Warning])
    ensures { result.0.now ++ result.1.now ≡ warnings.now }
{
    let end = item.at.saturating_add(item.length);
    warnings.split_at(warnings.partition_point(|warning| warning.at < end))
}
