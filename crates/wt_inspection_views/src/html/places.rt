//! The places of field lines, settings and capsules among the bytes of an item.
use crate::bytes_of;
use std::alloc::{AllocError, Global};
use wt_inspection_model::item::{CapsuleItem, Content, FrameItem, Item, Parts};

/// Above this number of lines of an item, the others are counted.
pub(super) const MAX_LINES: usize = 1000;

/// The bytes of the longest integer with a prefix that is read.
const MAX_INTEGER_LEN: usize = 5;

/// The parts of an item, each of which has a line of its own: field lines, settings or capsules.
#[derive(Drop)]
pub(super) struct Places {
    /// Where each part begins. What follows the last part has a place, too, if it is known.
    pub(super) starts: Vec<usize>,
    /// The number of parts.
    pub(super) count: usize,
}

/// Returns the places of the parts of an item.
pub(super) fn places_of(alloc: Global, item: &Item, bytes: &[u8]) -> Result<Places, AllocError> {
    let whole = bytes_of(bytes, item.at, item.length);
    let starts = match &item.content {
        Content::Section(section) => line_places(alloc, item.at, whole, section.lines.len())?,
        Content::Settings(settings) => setting_places(alloc, item.at, whole, settings.len())?,
        Content::Frame(frame) => frame_places(alloc, item, frame, bytes)?,
        _ => Vec::new(alloc),
    };
    let count = starts.len().saturating_sub(1);
    Ok(Places { starts, count })
}

/// Returns the places of the parts of a frame.
fn frame_places(
    alloc: Global,
    item: &Item,
    frame: &FrameItem,
    bytes: &[u8],
) -> Result<Vec<usize>, AllocError> {
    let at = item.at.saturating_add(frame.head);
    let payload = bytes_of(bytes, at, frame.present);
    match &frame.parts {
        Parts::Fields(section) => line_places(alloc, at, payload, section.lines.len()),
        Parts::Settings(settings) => setting_places(alloc, at, payload, settings.len()),
        Parts::Capsules(capsules) => capsule_places(alloc, at, bytes, capsules.as_slice()),
        _ => Ok(Vec::new(alloc)),
    }
}

/// Returns the places of capsules, of which the first may begin before `at`, and of what follows
/// them.
fn capsule_places(
    alloc: Global,
    at: usize,
    bytes: &[u8],
    capsules: &[CapsuleItem],
) -> Result<Vec<usize>, AllocError> {
    let mut places = Vec::new(alloc);
    for capsule in capsules.iter().take(MAX_LINES) {
        places.push(capsule.at.max(at))?;
    }
    if let Some(capsule) = capsules.get(places.len().saturating_sub(1)) {
        let rest = bytes.get(capsule.at..).unwrap_or(&[]);
        let head = pair_len(rest).unwrap_or(rest.len());
        let value = usize::try_from(capsule.announced).unwrap_or(usize::MAX);
        places.push(capsule.at.saturating_add(head).saturating_add(value))?;
    }
    Ok(places)
}

/// Returns the places of at most `count` settings, which begin at `at`, and of what follows them.
fn setting_places(
    alloc: Global,
    at: usize,
    payload: &[u8],
    count: usize,
) -> Result<Vec<usize>, AllocError> {
    let mut places = Vec::new(alloc);
    let mut place = 0usize;
    for _ in 0..count.min(MAX_LINES) {
        let Some(length) = pair_len(payload.get(place..).unwrap_or(&[])) else {
            break;
        };
        places.push(at.saturating_add(place))?;
        place = place.saturating_add(length);
    }
    places.push(at.saturating_add(place))?;
    Ok(places)
}

/// Returns the places of at most `count` field lines of a section, which begins at `at`, and of
/// what follows them.
fn line_places(
    alloc: Global,
    at: usize,
    section: &[u8],
    count: usize,
) -> Result<Vec<usize>, AllocError> {
    let mut places = Vec::new(alloc);
    let mut place = prefix_len(section).unwrap_or(section.len());
    for _ in 0..count.min(MAX_LINES) {
        let Some(length) = line_len(section.get(place..).unwrap_or(&[])) else {
            break;
        };
        places.push(at.saturating_add(place))?;
        place = place.saturating_add(length);
    }
    places.push(at.saturating_add(place))?;
    Ok(places)
}

/// Returns the length of the two variable-length integers that these bytes begin with (RFC 9000,
/// section 16).
fn pair_len(bytes: &[u8]) -> Option<usize> {
    let first = varint_len(*bytes.first()?);
    let second = varint_len(*bytes.get(first)?);
    Some(first.saturating_add(second))
}

/// Returns the length of a variable-length integer that begins with this byte.
fn varint_len(first: u8) -> usize {
    match first >> 6 {
        0 => 1,
        1 => 2,
        2 => 4,
        _ => 8,
    }
}

/// Returns the length of the prefix of a field section (RFC 9204, section 4.5.1).
fn prefix_len(section: &[u8]) -> Option<usize> {
    let (count, _) = integer(section, 0xff)?;
    let (base, _) = integer(section.get(count..)?, 0x7f)?;
    Some(count.saturating_add(base))
}

/// Returns the length of a field line (RFC 9204, section 4.5.2 to 4.5.6).
fn line_len(line: &[u8]) -> Option<usize> {
    let first = *line.first()?;
    if first >= 0x80 {
        return Some(integer(line, 0x3f)?.0);
    }
    if first >= 0x10 && first < 0x20 {
        return Some(integer(line, 0x0f)?.0);
    }
    let name = if first >= 0x40 {
        integer(line, 0x0f)?.0
    } else if first >= 0x20 {
        string_len(line, 0x07)?
    } else {
        integer(line, 0x07)?.0
    };
    let value = string_len(line.get(name..)?, 0x7f)?;
    Some(name.saturating_add(value))
}

/// Returns the length of a string whose length has a prefix with this largest value.
fn string_len(bytes: &[u8], most: u8) -> Option<usize> {
    let (length, value) = integer(bytes, most)?;
    Some(length.saturating_add(value))
}

/// Returns the length and the value of an integer whose prefix has this largest value (RFC 7541,
/// section 5.1), if it is not longer than an integer of 32 bits.
fn integer(bytes: &[u8], most: u8) -> Option<(usize, usize)> {
    let mut value = usize::from(*bytes.first()? & most);
    if value < usize::from(most) {
        return Some((1, value));
    }
    let mut weight = 1usize;
    let mut length = 1usize;
    for byte in bytes.get(1..)?.iter().take(MAX_INTEGER_LEN) {
        length = length.saturating_add(1);
        value = value.saturating_add(usize::from(*byte & 0x7f).saturating_mul(weight));
        if *byte < 0x80 {
            return Some((length, value));
        }
        weight = weight.saturating_mul(128);
    }
    None
}
