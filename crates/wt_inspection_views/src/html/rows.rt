//! The rows of bytes of an item.
use super::page::{Fragment, Markup};
use super::places::Places;
use crate::bytes_of;
use crate::text::parts::add_digits;
use std::alloc::{AllocError, Global};
use wt_inspection_model::item::{Content, FrameName, Item};
use wtp_wire::frame::FrameKind;

/// How many bytes a row shows.
const BYTES_PER_ROW: usize = 16;

/// Adds the rows of an item's bytes, sixteen a row, which are marked by its index, and those of its
/// parts by their indices. If the input is long, the bytes of payloads are not shown.
pub(super) fn add_rows(
    fragment: &mut Fragment,
    index: usize,
    item: &Item,
    places: &Places,
    bytes: &[u8],
    is_long: bool,
) {
    let shown = if is_long {
        shown_len(item)
    } else {
        item.length
    };
    fragment.markup(Markup::RowsOf);
    fragment.index(index, None);
    let mut at = item.at;
    for row in bytes_of(bytes, item.at, shown).chunks(BYTES_PER_ROW) {
        add_row(fragment, index, item, places, at, row);
        at = at.saturating_add(BYTES_PER_ROW);
    }
    add_left(fragment, item.length.saturating_sub(shown));
    fragment.markup(Markup::SpanEnd);
}

/// Adds the row of bytes at this place.
fn add_row(
    fragment: &mut Fragment,
    index: usize,
    item: &Item,
    places: &Places,
    at: usize,
    row: &[u8],
) {
    let alloc = fragment.alloc;
    fragment.text(format!(in alloc; "{at:<8}"));
    let mut rest = row;
    let mut place = at;
    for _ in 0..row.len() {
        if rest.is_empty() {
            break;
        }
        let (part, end) = part_at(item, places, place);
        let (now, later) = rest.split_at(end.saturating_sub(place).max(1).min(rest.len()));
        add_bytes(fragment, index, part, now);
        place = place.saturating_add(now.len());
        rest = later;
    }
    fragment.text(text_of(alloc, row));
}

/// What some bytes of an item are.
#[derive(Clone, Copy)]
enum Part {
    /// The head of the item.
    Head,
    /// A part with a line of its own.
    Line(usize),
    /// Others.
    Rest,
}

/// Returns what the byte at this place is, and where the next is something else.
fn part_at(item: &Item, places: &Places, place: usize) -> (Part, usize) {
    let starts = places.starts.as_slice();
    let after = starts.partition_point(|start| *start <= place);
    let end = starts.get(after).copied().unwrap_or(usize::MAX);
    let payload = item.at.saturating_add(head_len(item));
    if place < payload {
        return (Part::Head, payload.min(end));
    }
    match after.checked_sub(1) {
        Some(part) if part < places.count => (Part::Line(part), end),
        _ => (Part::Rest, end),
    }
}

/// Adds bytes of a part.
fn add_bytes(fragment: &mut Fragment, index: usize, part: Part, bytes: &[u8]) {
    match part {
        Part::Head => fragment.markup(Markup::HeadOf),
        Part::Line(part) => {
            fragment.markup(Markup::PartOf);
            fragment.index(index, Some(part));
        }
        Part::Rest => {}
    }
    fragment.text(digits_of(fragment.alloc, bytes));
    match part {
        Part::Head => fragment.markup(Markup::HeadEnd),
        Part::Line(_) => fragment.markup(Markup::SpanEnd),
        Part::Rest => {}
    }
}

/// Returns the hexadecimal digits of bytes.
fn digits_of(alloc: Global, bytes: &[u8]) -> Result<String, AllocError> {
    let mut words = String::new(alloc);
    add_digits(&mut words, bytes)?;
    Ok(words)
}

/// Returns the end of a row: its bytes as text, with a dot for each that is not printable ASCII.
fn text_of(alloc: Global, row: &[u8]) -> Result<String, AllocError> {
    let mut words = String::from_str(alloc, "  ")?;
    for _ in row.len()..BYTES_PER_ROW {
        words.push_str("   ")?;
    }
    for byte in row {
        let is_printable = *byte >= 0x20 && *byte < 0x7f;
        words.push(if is_printable { *byte as char } else { '.' })?;
    }
    words.push('\n')?;
    Ok(words)
}

/// Adds how many bytes of payload are not shown, if some are not.
fn add_left(fragment: &mut Fragment, left: usize) {
    if left > 0 {
        let alloc = fragment.alloc;
        fragment.text(format!(in alloc; "        {left} bytes of payload\n"));
    }
}

/// Returns how many bytes of an item are shown of a long input: all but those of a payload without
/// lines.
fn shown_len(item: &Item) -> usize {
    match &item.content {
        Content::Payload | Content::Unread => 0,
        Content::Datagram(_) => head_len(item),
        Content::Frame(frame) => match frame.name {
            FrameName::Read(FrameKind::Headers | FrameKind::Settings) => item.length,
            _ => head_len(item),
        },
        _ => item.length,
    }
}

/// Returns how many bytes of an item come before its payload.
fn head_len(item: &Item) -> usize {
    match &item.content {
        Content::Stream(_) | Content::Session(_) => item.length,
        Content::Datagram(head) => item.length.saturating_sub(head.payload),
        Content::Frame(frame) => frame.head.min(item.length),
        _ => 0,
    }
}
