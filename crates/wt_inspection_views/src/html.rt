//! Inspections as one page of HTML.
ghost use Rattle.std.specs.Prelude.{◌≡◌, [], IfOk};
ghost use Rattle.wt_inspection_views.specs.Html.{IsPage, entry_of};

pub mod connection;
mod page;
mod places;
mod rows;

use crate::plain::LINE_MARK;
use crate::split_warnings;
use crate::text::{end_line, item_lines, warning_lines};
use page::{Fragment, Markup, Page};
use places::{MAX_LINES, Places, places_of};
use rows::add_rows;
use std::alloc::{AllocError, Global};
use wt_inspection_model::item::{End, Inspection, Item, Warning};

/// Above this number of items, the others are counted.
const MAX_ITEMS: usize = 10_000;

/// Above this number of bytes, those of payloads are not shown.
const MAX_SHOWN_LEN: usize = 65_536;

/// How a line begins that belongs to the line above it, which has fewer blanks.
const FURTHER: &str = "            ";

/// Returns the inspection of these bytes as a page of HTML, which needs no other file.
///
/// At the top is the title, with the numbers of bytes and of items. The bytes are on the left,
/// sixteen a row with their places and as text, and the items on the right, as the text for people
/// has them. Pointing at an item, a field line, a setting or a capsule marks its bytes, and the
/// other way round. Items can be folded and searched. Above 65536 bytes of input, payloads are
/// shown by their lengths. Items after the first 10000, and lines after the first 1000 of an item
/// or of its warnings, are counted. What a peer sent stands in escaped text alone.
///
/// Returns [`AllocError`] if allocation fails.
pub fn write_html(
    alloc: Global,
    title: &str,
    inspection: &Inspection,
    bytes: &[u8],
) -> Result<Vec<u8>, AllocError>
    ensures { IfOk result (λ page. IsPage page.items) }
{
    let mut content = Fragment::new(alloc);
    add_inspection(&mut content, title, inspection, bytes)?;
    let mut page = Page::new(alloc);
    page.fragment(content);
    page.into_bytes()
}

/// Adds the title, the rows of bytes and the items of an inspection.
fn add_inspection(
    fragment: &mut Fragment,
    title: &str,
    inspection: &Inspection,
    bytes: &[u8],
) -> Result<(), AllocError> {
    let items = inspection.items.as_slice();
    let (shown, others) = items.split_at(items.len().min(MAX_ITEMS));
    add_title(fragment, title, bytes.len(), items.len());
    fragment.markup(Markup::Bytes);
    add_bytes(fragment, 0, shown, bytes, bytes.len() > MAX_SHOWN_LEN)?;
    fragment.markup(Markup::PreEnd);
    fragment.markup(Markup::Items);
    add_items(fragment, 0, shown, inspection.warnings.as_slice(), bytes)?;
    add_others(fragment, others.len(), "items");
    add_end(fragment, inspection.end, bytes.len());
    fragment.markup(Markup::ItemsEnd);
    Ok(())
}

/// Adds what is shown.
fn add_title(fragment: &mut Fragment, title: &str, size: usize, items: usize) {
    let alloc = fragment.alloc;
    let bytes = if size == 1 { "byte" } else { "bytes" };
    let word = if items == 1 { "item" } else { "items" };
    fragment.text(format!(in alloc; "{title}: {size} {bytes}, {items} {word}"));
    fragment.markup(Markup::Main);
}

/// Adds the rows of the bytes of items, which are marked by numbers from `first` on.
fn add_bytes(
    fragment: &mut Fragment,
    first: usize,
    items: &[Item],
    bytes: &[u8],
    is_long: bool,
) -> Result<(), AllocError> {
    for (index, item) in items.iter().enumerate() {
        let places = places_of(fragment.alloc, item, bytes)?;
        let index = first.saturating_add(index);
        add_rows(fragment, index, item, &places, bytes, is_long);
    }
    Ok(())
}

/// Adds the lines of items, and of those of these warnings that are about them. They are marked by
/// numbers from `first` on.
fn add_items(
    fragment: &mut Fragment,
    first: usize,
    items: &[Item],
    warnings: &[Warning],
    bytes: &[u8],
) -> Result<(), AllocError> {
    let mut later = warnings;
    for (index, item) in items.iter().enumerate() {
        let places = places_of(fragment.alloc, item, bytes)?;
        let index = first.saturating_add(index);
        later = add_item(fragment, index, item, &places, later);
    }
    Ok(())
}

/// Adds the lines of an item and of those of these warnings that are about it, which are marked by
/// its index. Returns the other warnings.
fn add_item<'a>(
    fragment: &mut Fragment,
    index: usize,
    item: &Item,
    places: &Places,
    warnings: &'a [Warning],
) -> &'a [Warning] {
    let (here, later) = split_warnings(item, warnings);
    let (shown, others) = here.split_at(here.len().min(MAX_LINES));
    fragment.markup(Markup::ItemOf);
    fragment.index(index, None);
    match item_lines(fragment.alloc, item) {
        Ok(text) => add_lines(fragment, index, text.as_str(), places.count),
        Err(_) => fragment.mark_failed(),
    }
    fragment.markup(Markup::Warnings);
    match warning_lines(fragment.alloc, shown) {
        Ok(text) => add_plain_lines(fragment, text.as_str()),
        Err(_) => fragment.mark_failed(),
    }
    add_others(fragment, others.len(), "warnings");
    fragment.markup(Markup::ItemEnd);
    later
}

/// Adds the lines of an item. The first is always seen, and each of the next is marked by the index
/// of its part, if it is one of this number of parts.
fn add_lines(fragment: &mut Fragment, index: usize, text: &str, parts: usize) {
    let mut lines = text.lines();
    if let Some(line) = lines.next() {
        fragment.markup(Markup::First);
        fragment.line(words_of(line));
        fragment.markup(Markup::FirstEnd);
    }
    let mut part = 0usize;
    let mut others = 0usize;
    for (number, line) in lines.enumerate() {
        let words = words_of(line);
        if number > 0 && !words.starts_with(FURTHER) {
            part = part.saturating_add(1);
        }
        if number >= MAX_LINES {
            others = others.saturating_add(1);
        } else {
            add_part(fragment, index, words, part, parts);
        }
    }
    add_others(fragment, others, "lines");
}

/// Adds the line of a part.
fn add_part(fragment: &mut Fragment, index: usize, words: &str, part: usize, parts: usize) {
    if part < parts {
        fragment.markup(Markup::PartOf);
        fragment.index(index, Some(part));
    } else {
        fragment.markup(Markup::Line);
    }
    fragment.line(words);
    fragment.markup(Markup::SpanEnd);
}

/// Adds lines that are marked by nothing.
fn add_plain_lines(fragment: &mut Fragment, text: &str) {
    for line in text.lines() {
        fragment.markup(Markup::Line);
        fragment.line(words_of(line));
        fragment.markup(Markup::SpanEnd);
    }
}

/// Returns the words of a line.
fn words_of(line: &str) -> &str {
    line.strip_prefix(LINE_MARK).unwrap_or(line)
}

/// Adds how many others there are, if there are some.
fn add_others(fragment: &mut Fragment, count: usize, what: &str) {
    if count > 0 {
        let alloc = fragment.alloc;
        fragment.markup(Markup::Line);
        fragment.text(format!(in alloc; "        {count} more {what}, which text and JSON show\n"));
        fragment.markup(Markup::SpanEnd);
    }
}

/// Adds the line of how bytes of this length end.
fn add_end(fragment: &mut Fragment, end: End, length: usize) {
    fragment.markup(begin_end(end));
    match end_line(fragment.alloc, end, length) {
        Ok(text) => add_plain_lines(fragment, text.as_str()),
        Err(_) => fragment.mark_failed(),
    }
}

/// Returns what begins the line of an end.
fn begin_end(end: End) -> Markup
    ensures { entry_of result ≡ [] }
{
    match end {
        End::Fault(_) => Markup::Fault,
        _ => Markup::Ending,
    }
}
