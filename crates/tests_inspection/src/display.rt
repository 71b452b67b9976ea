//! Inspections in each output format.
use json::{Scratch, is_valid};
use std::alloc::{AllocError, Global};
use std::process::Abort;
use wt_inspection::{Recorded, inspect};
use wt_inspection_views::html::write_html;
use wt_inspection_views::json_lines::write_json;
use wt_inspection_views::text::write_text;

/// A recording that is shown.
#[derive(Clone, Copy)]
pub(crate) struct Given<'a> {
    pub(crate) bytes: &'a [u8],
    pub(crate) kind: Recorded,
    /// Whether more bytes may follow.
    pub(crate) open: bool,
    /// Whether payload is shown.
    pub(crate) payload: bool,
}

/// An inspection in each output format.
#[derive(Drop)]
pub(crate) struct Shown {
    pub(crate) text: String,
    pub(crate) lines: Vec<u8>,
    pub(crate) page: Vec<u8>,
}

/// Returns a field section alone, with no more to come.
pub(crate) fn section_of(bytes: &[u8]) -> Given<'_> {
    Given {
        bytes,
        kind: Recorded::Section,
        open: false,
        payload: false,
    }
}

/// Displays bytes in each format.
pub(crate) fn show_once(alloc: Global, given: Given<'_>) -> Result<Shown, AllocError> {
    let Given {
        bytes,
        kind,
        open,
        payload,
    } = given;
    let found = inspect(alloc, kind, bytes, open)?;
    Ok(Shown {
        text: write_text(alloc, &found, bytes, payload)?,
        lines: write_json(alloc, &found, bytes, payload)?,
        page: write_html(alloc, "section", &found, bytes)?,
    })
}

/// Returns bytes as text.
pub(crate) fn text_in(bytes: &[u8]) -> &str {
    str::from_utf8(bytes).unwrap_or("not UTF-8")
}

/// Returns whether each line is valid JSON.
pub(crate) fn are_json<R: Abort>(rt: &R, alloc: Global, lines: &str) -> bool {
    let mut scratch = Scratch::new(alloc);
    for line in lines.lines() {
        if !is_valid(line, &mut scratch).expect(rt, "memory") {
            return false;
        }
    }
    true
}
