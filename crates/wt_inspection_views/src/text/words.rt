//! The words of lines, which are built in place.

use crate::shape::{CapsuleShape, FrameShape, Shape};
use itoa::Buffer;
use std::alloc::AllocError;
use wt_inspection_model::item::{FrameName, Warning};
use wtp_core::error::Code;
use wtp_wire::frame::FrameKind;

/// As many blanks as a column is wide.
const BLANKS: &str = "                  ";

/// The width of the column of offsets.
pub(super) const PLACE_WIDTH: usize = 5;

/// The width of the column that says what an item is.
const KIND_WIDTH: usize = 18;

/// Appends a number.
fn add_number(words: &mut String, number: u64) -> Result<(), AllocError> {
    let mut buffer = Buffer::new();
    words.push_str(buffer.format(number))
}

/// Appends blanks after a text of this length in a column of this width, if it is shorter.
fn add_blanks(words: &mut String, length: usize, width: usize) -> Result<(), AllocError> {
    let missing = width.saturating_sub(length);
    words.push_str(BLANKS.get(..missing).unwrap_or(""))
}

/// Appends a number of bytes.
fn add_count(words: &mut String, count: u64) -> Result<(), AllocError> {
    match count {
        1 => words.push_str("1 byte"),
        _ => {
            add_number(words, count)?;
            words.push_str(" bytes")
        }
    }
}

/// Appends a number in hexadecimal.
fn add_hex_number(words: &mut String, number: u64) -> Result<(), AllocError> {
    let text = format!(in *words.allocator(); "{number:#x}")?;
    words.push_str(text.as_str())
}

/// Appends the offset of an item.
fn add_place(words: &mut String, at: usize) -> Result<(), AllocError> {
    let mut buffer = Buffer::new();
    let place = buffer.format(at);
    words.push_str(place)?;
    add_gap(words, place.len())
}

/// Appends what separates an offset of this length from what the item is.
fn add_gap(words: &mut String, length: usize) -> Result<(), AllocError> {
    add_blanks(words, length, PLACE_WIDTH)?;
    words.push_str(" ")
}

/// Appends what an item is.
fn add_kind(words: &mut String, what: &str) -> Result<(), AllocError> {
    words.push_str(what)?;
    add_blanks(words, what.len(), KIND_WIDTH)?;
    words.push_str(" ")
}

/// Appends the words of an item with its number of bytes.
pub(super) fn add_size_words(
    words: &mut String,
    at: usize,
    what: &str,
    size: u64,
) -> Result<(), AllocError> {
    add_place(words, at)?;
    add_kind(words, what)?;
    add_count(words, size)
}

/// Appends the words of the first line of a frame with fields: `label` says what they are.
pub(super) fn add_labelled_words(
    words: &mut String,
    at: usize,
    frame: &FrameShape,
    label: &str,
) -> Result<(), AllocError> {
    add_place(words, at)?;
    match numbered_name(frame.name) {
        Some(what) => add_numbered_kind(words, what, frame.number)?,
        None => {
            add_kind(words, label)?;
            words.push_str(frame.name.as_str())?;
            words.push_str(", ")?;
        }
    }
    add_sizes(words, frame)
}

/// Appends the words of the first line of a frame or a capsule, after its offset, which has this
/// length.
pub(super) fn add_shape_words(
    words: &mut String,
    place: usize,
    shape: &Shape,
) -> Result<(), AllocError> {
    add_gap(words, place)?;
    match shape {
        Shape::Frame(frame) => add_frame_words(words, frame),
        Shape::Capsule(capsule) => {
            add_kind(words, "capsule")?;
            add_capsule_details(words, capsule)
        }
    }
}

/// Appends what a frame is. The number of a type without a unique name is shown.
fn add_frame_words(words: &mut String, frame: &FrameShape) -> Result<(), AllocError> {
    match numbered_name(frame.name) {
        Some(what) => add_numbered_kind(words, what, frame.number)?,
        None => add_kind(words, frame.name.as_str())?,
    }
    add_sizes(words, frame)
}

/// Appends what a frame is, and the number of its type.
fn add_numbered_kind(words: &mut String, what: &str, number: u64) -> Result<(), AllocError> {
    add_kind(words, what)?;
    add_hex_number(words, number)?;
    words.push_str(", ")
}

/// Returns what a frame is whose type has no unique name.
fn numbered_name(name: FrameName) -> Option<&'static str> {
    match name {
        FrameName::Read(FrameKind::Exercise(_)) => Some("reserved frame"),
        FrameName::Unknown => Some("unknown frame"),
        FrameName::Http2 => Some("HTTP/2 frame"),
        _ => None,
    }
}

/// Appends the length of the payload of a frame, and how many bytes of it are present, unless all
/// are.
fn add_sizes(words: &mut String, frame: &FrameShape) -> Result<(), AllocError> {
    add_count(words, frame.announced)?;
    if frame.present as u64 == frame.announced {
        return Ok(());
    }
    words.push_str(", ")?;
    add_number(words, frame.present as u64)?;
    words.push_str(" of them present")
}

/// Appends the words of the first line of a capsule in a frame.
pub(super) fn add_indented_words(
    words: &mut String,
    capsule: &CapsuleShape,
) -> Result<(), AllocError> {
    words.push_str("        capsule          ")?;
    add_capsule_details(words, capsule)
}

/// Appends the type and the size of a capsule.
fn add_capsule_details(words: &mut String, capsule: &CapsuleShape) -> Result<(), AllocError> {
    words.push_str(capsule.name)?;
    match capsule.name {
        "reserved" | "unknown" => {
            words.push_str(" ")?;
            add_hex_number(words, capsule.number)?;
        }
        _ => {}
    }
    words.push_str(", ")?;
    add_count(words, capsule.announced)
}

/// Appends the words of a warning: the field line, counted from 1, the error code, and the reason.
/// A hint has no code.
pub(super) fn add_warning_words(words: &mut String, warning: &Warning) -> Result<(), AllocError> {
    let why = warning.rule.why();
    let Some(code) = warning.rule.code() else {
        words.push_str("        hint: ")?;
        return words.push_str(why);
    };
    words.push_str("        warning: ")?;
    match warning.line {
        Some(line) => {
            words.push_str("field ")?;
            add_number(words, line.saturating_add(1) as u64)?;
            words.push_str(": ")?;
        }
        None => {}
    }
    add_code(words, code)?;
    words.push_str(": ")?;
    words.push_str(why)
}

/// Appends the name of an error code, or its number if it has none.
fn add_code(words: &mut String, code: Code) -> Result<(), AllocError> {
    match code.name() {
        Some(name) => words.push_str(name),
        None => add_hex_number(words, code.number().into_inner()),
    }
}
