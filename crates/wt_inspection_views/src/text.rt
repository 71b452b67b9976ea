//! Displays inspections as text.
ghost use Rattle.std.specs.Prelude.{◌≡◌, ◌+◌, IfOk, IsTrue, length, string_bytes, sum_by};
ghost use Rattle.wt_inspection_views.specs.Escaped.{AreLines, line_count};
ghost use Rattle.wt_inspection_views.specs.Lines.{AddsTextLines, Gains};
ghost use Rattle.wt_inspection_views.specs.TextLines.{capsule_lines, content_lines, hex_lines};
ghost use Rattle.wt_inspection_views.specs.TextLines.{inspection_lines, parts_lines};
ghost use Rattle.wt_inspection_views.specs.TextLines.{item_lines as lines_of_item};
ghost use Rattle.wt_inspection_views.specs.TextLines.{payload_of as payload_of_item};
ghost use Rattle.wt_inspection_views.specs.TextLines.{shown_of as shown_of_item};

mod kept;
mod lines;
pub(crate) mod parts;
mod words;

use crate::{bytes_of, split_warnings};
pub use lines::Lines;
use parts::{
    add_capsule, add_fields, add_hex, add_instruction, add_settings, add_signal,
    add_warnings as add_each_warning, count_bytes,
};
use std::alloc::{AllocError, Global};
use wt_inspection_model::item::{
    CapsuleItem, Content, Cut, DatagramHead, End, Fault, FieldSection, FrameItem, FrameName,
    Inspection, Item, Parts, StreamHead, Warning,
};
use wtp_wire::frame::FrameKind;

/// Formats an inspection of `bytes` as text.
///
/// Each line begins with [`LINE_MARK`](crate::plain::LINE_MARK). Each item has a line with its
/// offset, its kind and, but for stream heads and sessions, its size. Its contents follow on
/// further, indented lines. The last line says how the input ends. If `payload` is set, payload
/// bytes are shown in hexadecimal.
///
/// Bytes from a peer are shown unchanged if they are UTF-8 without backslashes, control
/// characters, invisible ones, and those that look like the mark. Otherwise each byte other than
/// printable ASCII, and each backslash, is shown as `\xNN`. So nothing that a peer sent looks like
/// the start of a line, also where a terminal wraps. The number of lines is that of the items, the
/// lines of their contents, the warnings, and one.
///
/// Returns [`AllocError`] if allocation fails.
pub fn write_text(
    alloc: Global,
    inspection: &Inspection,
    bytes: &[u8],
    payload: bool,
) -> Result<String, AllocError>
    ensures lines { IfOk result (λ t. AreLines (string_bytes t)) }
    ensures count { IfOk result
        (λ t. line_count (string_bytes t) ≡ inspection_lines payload bytes.now inspection.now) }
{
    let mut text = Lines::new(alloc);
    let mut warnings = inspection.warnings.as_slice();
    for item in &inspection.items {
        warnings = add_all_of(&mut text, item, bytes, payload, warnings);
    }
    add_warnings(&mut text, warnings);
    add_end(&mut text, inspection.end, bytes.len());
    text.into_text()
}

/// Appends an item and its warnings. Returns the remaining warnings.
fn add_all_of<'a>(
    text: &mut Lines,
    item: &Item,
    bytes: &[u8],
    payload: bool,
    warnings: &'a [Warning],
) -> &'a [Warning]
    ensures { IsTrue text.new.is_whole → IsTrue text.old.is_whole
        × (line_count text.new.text + length result.now ≡ line_count text.old.text
        + lines_of_item payload bytes.now item.now + length warnings.now) }
{
    let (here, later) = split_warnings(item, warnings);
    add_item_lines(text, item, bytes, payload, here);
    later
}

/// Appends the lines of an item of `bytes`, and of the warnings about it. If `payload` is set,
/// payload bytes are shown too.
///
/// The text that [`write_text`] returns has these lines for each item, and after them those of
/// [`add_warnings`] and [`add_end`].
pub fn add_item_lines(
    text: &mut Lines,
    item: &Item,
    bytes: &[u8],
    payload: bool,
    warnings: &[Warning],
)
    ensures gains { Gains (lines_of_item payload bytes.now item.now + length warnings.now) text.old
        text.new }
    ensures adds { AddsTextLines (lines_of_item payload bytes.now item.now + length warnings.now)
        text.old text.new }
{
    add_item(text, item);
    add_hex(text, shown_of(item, bytes, payload));
    add_warnings(text, warnings)
}

/// Appends the lines of warnings.
pub fn add_warnings(text: &mut Lines, warnings: &[Warning])
    ensures gains { Gains (length warnings.now) text.old text.new }
    ensures adds { AddsTextLines (length warnings.now) text.old text.new }
{
    add_each_warning(text, warnings)
}

/// Returns the lines of an item.
pub(crate) fn item_lines(alloc: Global, item: &Item) -> Result<String, AllocError> {
    let mut text = Lines::new(alloc);
    add_item(&mut text, item);
    text.into_text()
}

/// Returns the lines of warnings.
pub(crate) fn warning_lines(alloc: Global, warnings: &[Warning]) -> Result<String, AllocError> {
    let mut text = Lines::new(alloc);
    add_warnings(&mut text, warnings);
    text.into_text()
}

/// Returns the line that says how an input of this length ends.
pub(crate) fn end_line(alloc: Global, end: End, length: usize) -> Result<String, AllocError> {
    let mut text = Lines::new(alloc);
    add_end(&mut text, end, length);
    text.into_text()
}

/// Returns the application data in an item, or no bytes if payload is not shown.
pub(crate) fn shown_of<'a>(item: &Item, bytes: &'a [u8], payload: bool) -> &'a [u8]
    ensures { result.now ≡ shown_of_item payload bytes.now item.now }
{
    if payload {
        payload_of(item, bytes)
    } else {
        &[]
    }
}

/// Returns the application data in an item.
fn payload_of<'a>(item: &Item, bytes: &'a [u8]) -> &'a [u8]
    ensures { result.now ≡ payload_of_item bytes.now item.now item.now.content }
{
    match &item.content {
        Content::Payload => bytes_of(bytes, item.at, item.length),
        Content::Datagram(head) if head.payload <= item.length => {
            let start = item.at.saturating_add(item.length - head.payload);
            bytes_of(bytes, start, head.payload)
        }
        Content::Frame(frame) if frame.name == FrameName::Read(FrameKind::Data) => {
            bytes_of(bytes, item.at.saturating_add(frame.head), frame.present)
        }
        _ => &[],
    }
}

/// Appends the lines of an item.
fn add_item(text: &mut Lines, item: &Item)
    ensures { Gains (content_lines item.now.content) text.old text.new }
{
    let at = item.at;
    let size = item.length as u64;
    match &item.content {
        Content::Stream(head) => text.add_head(at, "stream", words_of_stream(text.alloc, *head)),
        Content::Frame(frame) => add_frame(text, at, frame),
        Content::Session(id) => {
            text.add_head(at, "WebTransport", format!(in text.alloc; "session {id}"))
        }
        Content::Payload => text.add_size(at, "payload", size),
        Content::Capsule(capsule) => add_capsule(text, Some(at), capsule),
        Content::Datagram(head) => {
            text.add_head(at, "datagram", words_of_datagram(text.alloc, *head))
        }
        Content::Section(section) => {
            text.add_size(at, section_label(section), size);
            add_fields(text, section)
        }
        Content::Settings(settings) => {
            text.add_size(at, "settings", size);
            add_settings(text, settings.as_slice())
        }
        Content::Instruction(instruction) => add_instruction(text, at, instruction, size),
        Content::Unread => text.add_size(at, "not read", size),
    }
}

/// Returns the type of a unidirectional stream and its session ID, if it has one.
fn words_of_stream(alloc: Global, head: StreamHead) -> Result<String, AllocError> {
    let name = head.name.as_str();
    let number = head.number;
    match (head.session, head.push) {
        (Some(id), _) => format!(in alloc; "{name}, type {number:#x}, session {id}"),
        (None, Some(id)) => format!(in alloc; "{name}, type {number:#x}, push {id}"),
        (None, None) => format!(in alloc; "{name}, type {number:#x}"),
    }
}

/// Appends the lines of a frame.
fn add_frame(text: &mut Lines, at: usize, frame: &FrameItem)
    ensures { Gains (1 + parts_lines frame.now.parts) text.old text.new }
{
    text.add_frame(at, frame, label_of(&frame.parts));
    add_parts(text, &frame.parts)
}

/// Returns what the fields of a frame are, if it has some.
fn label_of(parts: &Parts) -> Option<&'static str> {
    match parts {
        Parts::Fields(section) => Some(section_label(section)),
        _ => None,
    }
}

/// Appends the lines of the contents of a frame.
fn add_parts(text: &mut Lines, parts: &Parts)
    ensures { Gains (parts_lines parts.now) text.old text.new }
{
    match parts {
        Parts::Opaque => {}
        Parts::Fields(section) => add_fields(text, section),
        Parts::Settings(settings) => add_settings(text, settings.as_slice()),
        Parts::Capsules(capsules) => add_capsules(text, capsules.as_slice()),
        Parts::Signal(signal) => add_signal(text, signal),
    }
}

/// Appends the lines of the capsules of a frame.
fn add_capsules(text: &mut Lines, capsules: &[CapsuleItem])
    ensures { Gains (sum_by capsule_lines capsules.now) text.old text.new }
{
    for capsule in capsules {
        add_capsule(text, None, capsule);
    }
}

/// Returns the kind of a field section, by its pseudo-header fields (RFC 9114, section 4.3; RFC
/// 8441, section 4).
pub(crate) fn section_label(section: &FieldSection) -> &'static str {
    let lines = section.lines.as_slice();
    if lines
        .iter()
        .any(|line| line.name.as_slice() == b":status".as_slice())
    {
        "response"
    } else if lines
        .iter()
        .any(|line| line.name.as_slice() == b":protocol".as_slice())
    {
        "session request"
    } else if lines
        .iter()
        .any(|line| line.name.as_slice() == b":method".as_slice())
    {
        "request"
    } else {
        "fields"
    }
}

/// Returns the details of a datagram.
fn words_of_datagram(alloc: Global, head: DatagramHead) -> Result<String, AllocError> {
    let DatagramHead {
        quarter,
        session,
        payload,
    } = head;
    let size = count_bytes(alloc, payload as u64)?;
    format!(in alloc; "session {session}, quarter stream ID {quarter}, {size}")
}

/// Appends the line that says how an input of this length ends.
pub fn add_end(text: &mut Lines, end: End, length: usize)
    ensures gains { Gains 1 text.old text.new }
    ensures adds { AddsTextLines 1 text.old text.new }
{
    match end {
        End::Complete => text.add_whole(length),
        End::Cut(cut) => text.add_head(cut.at, "cut", words_of_cut(text.alloc, cut)),
        End::Fault(fault) => text.add_fault(fault.at, words_of_fault(text.alloc, fault)),
    }
}

/// Returns the details of a truncated item.
fn words_of_cut(alloc: Global, cut: Cut) -> Result<String, AllocError> {
    let Cut { item, missing, .. } = cut;
    let size = count_bytes(alloc, missing)?;
    format!(in alloc; "{item}, at least {size} missing")
}

/// Returns the details of an error.
fn words_of_fault(alloc: Global, fault: Fault) -> Result<String, AllocError> {
    let why = fault.why;
    let code = fault.code.code();
    let number = code.number().into_inner();
    format!(in alloc; "{code} ({number:#x}): {why}")
}
