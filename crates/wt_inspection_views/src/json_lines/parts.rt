//! Members with nested values.
ghost use Rattle.std.specs.Prelude.{List, Bool};
ghost use Rattle.wt_inspection_views.specs.Objects.{AddsElements, AddsMembers, AddsValue};

use super::object::Object;
use crate::shape::CapsuleShape;
use crate::text::parts::name_setting;
use wt_inspection_model::item::{
    CapsuleItem, CloseReason, FieldSection, FlowLimit, Index, Instruction, Line, SectionFault,
    SettingIssue, SettingLine, Signal, Unknown,
};

/// Appends the lines of a field section and, if they end early, the reason.
pub(super) fn add_section(object: &mut Object, section: &FieldSection)
    ensures { AddsMembers object.old object.new }
{
    object.add_name("fields");
    object.begin_array();
    add_fields(object, section.lines.as_slice());
    object.end_array();
    match section.fault {
        None => {}
        Some(fault) => add_stop(object, fault, section.insert_count),
    }
}

/// Appends field lines as array elements.
fn add_fields(object: &mut Object, lines: &[Line])
    ensures { AddsElements object.old object.new }
{
    for line in lines {
        add_field(object, line);
    }
}

/// Appends a field line as an element of an array: its name and its value.
fn add_field(object: &mut Object, line: &Line)
    ensures { AddsElements object.old object.new }
{
    object.begin_array();
    add_texts(object, line);
    object.end_array()
}

/// Appends a field line as the value of a member.
fn add_line(object: &mut Object, line: &Line)
    ensures { AddsValue object.old object.new }
{
    object.begin_array();
    add_texts(object, line);
    object.end_array()
}

/// Appends the name and the value of a field line. An object with the index of an entry of the
/// dynamic table stands for what is unknown.
fn add_texts(object: &mut Object, line: &Line)
    ensures { AddsElements object.old object.new }
{
    match line.unknown {
        None => {
            object.add_value(line.name.as_slice());
            object.add_value(line.value.as_slice())
        }
        Some(Unknown::Field(index)) => add_index(object, index),
        Some(Unknown::Name(index)) => {
            add_index(object, index);
            object.add_value(line.value.as_slice())
        }
    }
}

/// Appends the index of an entry of the dynamic table.
fn add_index(object: &mut Object, index: Index)
    ensures { AddsElements object.old object.new }
{
    object.begin_object();
    match index {
        Index::Relative(index) => object.add_number("dynamic", index),
        Index::PostBase(index) => object.add_number("post_base", index),
    }
    object.end_object()
}

/// Appends what is missing of the lines of a section or wrong with them.
fn add_stop(object: &mut Object, fault: SectionFault, insert_count: Option<u64>)
    ensures { AddsMembers object.old object.new }
{
    match fault {
        SectionFault::NeedsDynamicTable => add_dynamic(object, insert_count),
        SectionFault::NeedsInsertions(required, inserted) => {
            object.add_text("needs", "more insertions");
            object.add_number("required", required);
            object.add_number("inserted", inserted)
        }
        SectionFault::Malformed(fault) => {
            object.add_formatted("stopped", format!(in object.alloc; "{fault}"))
        }
    }
}

/// Appends that a section needs the dynamic table, and the Required Insert Count if it was decoded.
fn add_dynamic(object: &mut Object, insert_count: Option<u64>)
    ensures { AddsMembers object.old object.new }
{
    object.add_text("needs", "an encoder stream");
    match insert_count {
        Some(count) => object.add_number("insert_count", count),
        None => {}
    }
}

/// Appends what a frame says of requests and pushes.
pub(super) fn add_signal(object: &mut Object, signal: &Signal)
    ensures { AddsMembers object.old object.new }
{
    match signal {
        Signal::Id(id) => object.add_number("id", *id),
        Signal::Priority(id, value) => {
            object.add_number("id", *id);
            object.add_name("priority");
            object.add_value(value.as_slice());
        }
        Signal::Promise(id, section) => {
            object.add_number("push", *id);
            add_section(object, section);
        }
    }
}

/// Appends an instruction.
pub(super) fn add_instruction(object: &mut Object, instruction: &Instruction)
    ensures { AddsMembers object.old object.new }
{
    object.add_text("item", "instruction");
    object.add_text("type", instruction.name());
    match instruction {
        Instruction::SetCapacity(capacity) => object.add_number("capacity", *capacity),
        Instruction::InsertStatic(index, line) => {
            object.add_number("static", *index);
            add_inserted(object, line)
        }
        Instruction::InsertDynamic(line) => add_inserted(object, line),
        Instruction::InsertLiteral(line) => add_inserted(object, line),
        Instruction::Duplicate(line) => add_inserted(object, line),
        Instruction::AcknowledgeSection(stream) => object.add_number("stream", *stream),
        Instruction::CancelStream(stream) => object.add_number("stream", *stream),
        Instruction::IncrementCount(count) => object.add_number("increment", *count),
    }
}

/// Appends the line that an instruction inserts.
fn add_inserted(object: &mut Object, line: &Line)
    ensures { AddsMembers object.old object.new }
{
    object.add_name("field");
    add_line(object, line)
}

/// Appends settings.
pub(super) fn add_settings(object: &mut Object, settings: &[SettingLine])
    ensures { AddsMembers object.old object.new }
{
    object.add_name("settings");
    object.begin_array();
    add_each_setting(object, settings);
    object.end_array()
}

/// Appends settings as array elements.
fn add_each_setting(object: &mut Object, settings: &[SettingLine])
    ensures { AddsElements object.old object.new }
{
    for setting in settings {
        add_setting(object, setting);
    }
}

/// Appends a setting.
fn add_setting(object: &mut Object, setting: &SettingLine)
    ensures { AddsElements object.old object.new }
{
    object.begin_object();
    object.add_number("id", setting.id);
    object.add_formatted("name", name_setting(object.alloc, setting));
    object.add_number("value", setting.value);
    add_flag(object, setting.flag);
    object.end_object()
}

/// Appends the problem with a setting.
fn add_flag(object: &mut Object, flag: Option<SettingIssue>)
    ensures { AddsMembers object.old object.new }
{
    match flag {
        None => {}
        Some(SettingIssue::Reserved) => object.add_text("fault", "http2"),
        Some(SettingIssue::Repeated) => object.add_text("fault", "repeated"),
        Some(SettingIssue::Value) => object.add_text("fault", "value"),
    }
}

/// Appends the capsules of a frame.
pub(super) fn add_capsules(object: &mut Object, capsules: &[CapsuleItem])
    ensures { AddsMembers object.old object.new }
{
    object.add_name("capsules");
    object.begin_array();
    add_each_capsule(object, capsules);
    object.end_array()
}

/// Appends capsules as array elements.
fn add_each_capsule(object: &mut Object, capsules: &[CapsuleItem])
    ensures { AddsElements object.old object.new }
{
    for capsule in capsules {
        add_placed_capsule(object, capsule);
    }
}

/// Appends an object with the offset and the contents of a capsule.
fn add_placed_capsule(object: &mut Object, capsule: &CapsuleItem)
    ensures { AddsElements object.old object.new }
{
    object.begin_object();
    object.add_number("at", capsule.at as u64);
    add_capsule(object, capsule);
    object.end_object()
}

/// Appends a capsule.
pub(super) fn add_capsule(object: &mut Object, capsule: &CapsuleItem)
    ensures { AddsMembers object.old object.new }
{
    add_capsule_head(object, &CapsuleShape::of(capsule));
    match &capsule.close {
        None => {}
        Some(close) => add_close(object, close),
    }
    add_limit(object, capsule.limit)
}

/// Appends a capsule without its value.
pub(super) fn add_capsule_head(object: &mut Object, capsule: &CapsuleShape)
    ensures { AddsMembers object.old object.new }
{
    object.add_text("type", capsule.name);
    object.add_number("number", capsule.number);
    object.add_number("payload", capsule.announced)
}

/// Appends a limit of flow control, if there is one.
fn add_limit(object: &mut Object, limit: Option<FlowLimit>)
    ensures { AddsMembers object.old object.new }
{
    match limit {
        None => {}
        Some(FlowLimit::Session(limit)) => object.add_number("limit", limit),
        Some(FlowLimit::Stream(stream, limit)) => {
            object.add_number("stream", stream);
            object.add_number("limit", limit)
        }
    }
}

/// Appends the reason for closing a session.
fn add_close(object: &mut Object, close: &CloseReason)
    ensures { AddsMembers object.old object.new }
{
    object.add_number("code", close.code);
    object.add_name("reason");
    object.add_value(close.reason.as_bytes())
}
