//! Displays inspections as JSON (RFC 8259), one object per line.
ghost use Rattle.std.specs.Prelude.{[], ◌+◌, ◌-◌, ◌≤◌, IfOk, length};
ghost use Rattle.wt_inspection_views.specs.JsonLines.{AreJsonLines, in_object, object_lines};
ghost use Rattle.wt_inspection_views.specs.Objects.{AddsLines, AddsMembers, IsAt};

mod head;
mod kept;
mod object;
mod parts;
mod session;
mod verdict;

use crate::shape::{FrameShape, Shape};
use crate::split_warnings;
use crate::text::shown_of;
pub use head::{PartHead, add_part};
use kept::Source;
use object::Object;
pub use object::{Lines, Origin};
use parts::{
    add_capsule, add_capsule_head, add_capsules, add_instruction, add_section, add_settings,
    add_signal,
};
pub use session::{SessionClose, SessionLine, add_session_line};
use std::alloc::{AllocError, Global};
pub use verdict::{VerdictLine, add_verdict};
use wt_inspection_model::item::{
    CapsuleItem, Content, Cut, DatagramHead, End, Fault, FieldSection, FrameItem, Inspection, Item,
    Parts, SettingLine, StreamHead, Warning,
};
use wtp_core::error::Code;

/// Formats an inspection of `bytes` as JSON: one object for each item, one for each warning, and
/// one for the end, each on its own line that ends with a line feed.
///
/// - Each object has `at`, its offset in bytes, and `item`, one of `stream`, `frame`, `session`,
///   `payload`, `capsule`, `datagram`, `section`, `settings`, `instruction`, `unread`, `warning`,
///   `hint` and `end`.
/// - A number above 2^53 - 1 is a string of its decimal digits, so that each reader of JSON has it
///   exactly (RFC 8259, section 6).
///   Items have their number of bytes as `length`; together they cover the whole input.
/// - `end` has `state`: `whole`, `cut` with `missing`, or `fault` with `code` and `name`.
/// - If `payload` is set, items with application data have its hexadecimal digits as `hex`.
/// - Bytes from a peer are a string if they are UTF-8 without DEL and U+0080 to U+009F, and
///   otherwise `{"hex":".."}`.
///
/// Returns [`AllocError`] if allocation fails.
pub fn write_json(
    alloc: Global,
    inspection: &Inspection,
    bytes: &[u8],
    payload: bool,
) -> Result<Vec<u8>, AllocError>
    ensures lines { IfOk result
        (λ text. AreJsonLines (object_lines inspection.now) text.items) }
{
    let mut lines = Lines::new(alloc);
    let mut warnings = inspection.warnings.as_slice();
    for item in &inspection.items {
        warnings = write_all_of(&mut lines, item, bytes, payload, warnings);
    }
    add_warnings(&mut lines, warnings);
    add_end(&mut lines, inspection.end, bytes.len());
    lines.into_bytes()
}

/// Appends the lines of an item and of the warnings about it. Returns the remaining warnings.
fn write_all_of<'a>(
    lines: &mut Lines,
    item: &Item,
    bytes: &[u8],
    payload: bool,
    warnings: &'a [Warning],
) -> &'a [Warning]
    ensures fewer { length result.now ≤ length warnings.now }
    ensures lines { AddsLines (1 + (length warnings.now - length result.now)) lines.old lines.new }
{
    let (here, later) = split_warnings(item, warnings);
    add_item_lines(lines, item, bytes, payload, here);
    later
}

/// Appends the line of an item of `bytes`, and those of the warnings about it. If `payload` is set,
/// an item with application data has its hexadecimal digits.
///
/// The text that [`write_json`] returns has these lines for each item, and after them those of
/// [`add_warnings`] and [`add_end`].
pub fn add_item_lines(
    lines: &mut Lines,
    item: &Item,
    bytes: &[u8],
    payload: bool,
    warnings: &[Warning],
)
    ensures { AddsLines (1 + length warnings.now) lines.old lines.new }
{
    write_item(lines, item, shown_of(item, bytes, payload));
    add_warnings(lines, warnings)
}

/// Appends the line of an item, with `shown` as its payload bytes.
fn write_item(lines: &mut Lines, item: &Item, shown: &[u8])
    ensures { AddsLines 1 lines.old lines.new }
{
    match Source::of(item) {
        Some(source) if shown.is_empty() && lines.keeps(item.at) => lines.add_kept(
            item.at, &source,
        ),
        _ => write_object(lines, item, shown),
    }
}

/// Appends the line of an item, with `shown` as its payload bytes, member by member.
fn write_object(lines: &mut Lines, item: &Item, shown: &[u8])
    ensures { AddsLines 1 lines.old lines.new }
{
    let mut object = lines.begin();
    object.add_number("at", item.at as u64);
    object.add_number("length", item.length as u64);
    add_content(&mut object, &item.content);
    add_shown(&mut object, shown);
    lines.add(object)
}

/// Appends payload bytes, unless there are none.
fn add_shown(object: &mut Object, shown: &[u8])
    ensures { AddsMembers object.old object.new }
{
    if !shown.is_empty() {
        object.add_hex("hex", shown);
    }
}

/// Appends the contents of an item.
fn add_content(object: &mut Object, content: &Content)
    ensures { AddsMembers object.old object.new }
{
    match content {
        Content::Stream(head) => add_stream(object, *head),
        Content::Frame(frame) => add_frame(object, frame),
        Content::Session(id) => add_session(object, *id),
        Content::Payload => object.add_text("item", "payload"),
        Content::Capsule(capsule) => add_capsule_item(object, capsule),
        Content::Datagram(head) => add_datagram(object, *head),
        Content::Section(section) => add_section_item(object, section),
        Content::Settings(settings) => add_settings_item(object, settings.as_slice()),
        Content::Instruction(instruction) => add_instruction(object, instruction),
        Content::Unread => object.add_text("item", "unread"),
    }
}

/// Appends the header of a bidirectional WebTransport stream.
fn add_session(object: &mut Object, id: u64)
    ensures { AddsMembers object.old object.new }
{
    object.add_text("item", "session");
    object.add_number("session", id)
}

/// Appends a capsule that is outside a DATA frame.
fn add_capsule_item(object: &mut Object, capsule: &CapsuleItem)
    ensures { AddsMembers object.old object.new }
{
    object.add_text("item", "capsule");
    add_capsule(object, capsule)
}

/// Appends a field section that is outside a HEADERS frame.
fn add_section_item(object: &mut Object, section: &FieldSection)
    ensures { AddsMembers object.old object.new }
{
    object.add_text("item", "section");
    add_section(object, section)
}

/// Appends settings that are outside a SETTINGS frame.
fn add_settings_item(object: &mut Object, settings: &[SettingLine])
    ensures { AddsMembers object.old object.new }
{
    object.add_text("item", "settings");
    add_settings(object, settings)
}

/// Appends the header of a unidirectional stream.
fn add_stream(object: &mut Object, head: StreamHead)
    ensures { AddsMembers object.old object.new }
{
    object.add_text("item", "stream");
    object.add_text("type", head.name.as_str());
    object.add_number("number", head.number);
    match head.session {
        Some(id) => object.add_number("session", id),
        None => {}
    }
    match head.push {
        Some(id) => object.add_number("push", id),
        None => {}
    }
}

/// Appends a frame.
fn add_frame(object: &mut Object, frame: &FrameItem)
    ensures { AddsMembers object.old object.new }
{
    add_frame_head(object, &FrameShape::of(frame));
    add_parts(object, &frame.parts)
}

/// Appends an item without contents, but for its offset.
fn add_shape(object: &mut Object, source: &Source)
    ensures { AddsMembers object.old object.new }
{
    object.add_number("length", source.length as u64);
    match &source.shape {
        Shape::Frame(frame) => {
            add_frame_head(object, frame);
            add_no_capsules(object, source.has_capsules)
        }
        Shape::Capsule(capsule) => {
            object.add_text("item", "capsule");
            add_capsule_head(object, capsule)
        }
    }
}

/// Appends that a frame has no capsules, if it could have some.
fn add_no_capsules(object: &mut Object, has_capsules: bool)
    ensures { AddsMembers object.old object.new }
{
    if has_capsules {
        add_capsules(object, &[]);
    }
}

/// Appends a frame without the contents of its payload.
fn add_frame_head(object: &mut Object, frame: &FrameShape)
    ensures { AddsMembers object.old object.new }
{
    object.add_text("item", "frame");
    object.add_text("type", frame.name.as_str());
    object.add_number("number", frame.number);
    object.add_number("payload", frame.announced);
    add_present(object, frame)
}

/// Appends the number of payload bytes that are present, unless all are.
fn add_present(object: &mut Object, frame: &FrameShape)
    ensures { AddsMembers object.old object.new }
{
    if frame.present as u64 != frame.announced {
        object.add_number("present", frame.present as u64);
    }
}

/// Appends the contents of a frame.
fn add_parts(object: &mut Object, parts: &Parts)
    ensures { AddsMembers object.old object.new }
{
    match parts {
        Parts::Opaque => {}
        Parts::Fields(section) => add_section(object, section),
        Parts::Settings(settings) => add_settings(object, settings.as_slice()),
        Parts::Capsules(capsules) => add_capsules(object, capsules.as_slice()),
        Parts::Signal(signal) => add_signal(object, signal),
    }
}

/// Appends the header of a datagram.
fn add_datagram(object: &mut Object, head: DatagramHead)
    ensures { AddsMembers object.old object.new }
{
    object.add_text("item", "datagram");
    object.add_number("quarter", head.quarter);
    object.add_number("session", head.session);
    object.add_number("payload", head.payload as u64)
}

/// Appends the lines of warnings.
pub fn add_warnings(lines: &mut Lines, warnings: &[Warning])
    ensures { AddsLines (length warnings.now) lines.old lines.new }
{
    for warning in warnings {
        add_warning(lines, warning);
    }
}

/// Appends the line of a warning.
fn add_warning(lines: &mut Lines, warning: &Warning)
    ensures { AddsLines 1 lines.old lines.new }
{
    let mut object = lines.begin();
    object.add_number("at", warning.at as u64);
    add_rule(&mut object, warning);
    object.add_text("why", warning.rule.why());
    lines.add(object)
}

/// Appends whether a rule is a hint, and otherwise the field line and the error code.
fn add_rule(object: &mut Object, warning: &Warning)
    ensures { AddsMembers object.old object.new }
{
    match warning.rule.code() {
        Some(code) => {
            object.add_text("item", "warning");
            add_place(object, warning.line);
            add_code(object, code);
        }
        None => object.add_text("item", "hint"),
    }
}

/// Appends the number and the name of an error code.
fn add_code(object: &mut Object, code: Code)
    ensures { AddsMembers object.old object.new }
{
    object.add_number("code", code.number().into_inner());
    object.add_formatted("name", format!(in object.alloc; "{code}"))
}

/// Appends the number of the field line that a warning is about, from 1, if there is one.
fn add_place(object: &mut Object, line: Option<usize>)
    ensures { AddsMembers object.old object.new }
{
    match line {
        Some(line) => object.add_number("line", line.saturating_add(1) as u64),
        None => {}
    }
}

/// Appends the line that says how an input of this length ends.
pub fn add_end(lines: &mut Lines, end: End, length: usize)
    ensures { AddsLines 1 lines.old lines.new }
{
    let mut object = lines.begin();
    add_ending(&mut object, end, length);
    lines.add(object)
}

/// Appends how an input of this length ends.
fn add_ending(object: &mut Object, end: End, length: usize)
    ensures { AddsMembers object.old object.new }
{
    match end {
        End::Complete => add_whole(object, length),
        End::Cut(cut) => add_cut(object, cut),
        End::Fault(fault) => add_fault(object, fault),
    }
}

/// Appends an end after this number of bytes.
fn add_whole(object: &mut Object, length: usize)
    ensures { AddsMembers object.old object.new }
{
    object.add_number("at", length as u64);
    object.add_text("item", "end");
    object.add_text("state", "whole")
}

/// Appends an end within an item.
fn add_cut(object: &mut Object, cut: Cut)
    ensures { AddsMembers object.old object.new }
{
    object.add_number("at", cut.at as u64);
    object.add_text("item", "end");
    object.add_text("state", "cut");
    object.add_text("of", cut.item);
    object.add_number("missing", cut.missing)
}

/// Appends an end at an error.
fn add_fault(object: &mut Object, fault: Fault)
    ensures { AddsMembers object.old object.new }
{
    object.add_number("at", fault.at as u64);
    object.add_text("item", "end");
    object.add_text("state", "fault");
    add_code(object, fault.code.code());
    object.add_text("why", fault.why)
}
