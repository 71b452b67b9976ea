//! The indented lines below an item.
ghost use Rattle.std.specs.List.{flat_map};
ghost use Rattle.std.specs.Prelude.{◌≡◌, ◌++◌, ◌∷◌, IfOk, length, string_bytes};
ghost use Rattle.wt_inspection_views.specs.Escaped.{hex_byte};
ghost use Rattle.wt_inspection_views.specs.Lines.{Gains};
ghost use Rattle.wt_inspection_views.specs.TextLines.{capsule_lines, close_lines, field_lines, limit_lines};
ghost use Rattle.wt_inspection_views.specs.TextLines.{hex_lines, stop_lines};
ghost use Rattle.wt_inspection_views.specs.TextLines.{IsFieldLine, IsKnownLine, IsNamedLine, IsPriorityLine, IsReasonLine};
ghost use Rattle.wt_inspection_views.specs.TextLines.{entry_words, instruction_lines, signal_lines};

use super::lines::Lines;
use crate::escaped::{add_escaped, add_hex_byte, add_name};
use std::alloc::{AllocError, Global};
use wt_inspection_model::item::{
    CapsuleItem, CloseReason, FieldSection, FlowLimit, Index, Instruction, Line, SectionFault,
    SettingIssue, SettingLine, Signal, Unknown, Warning,
};
use wtp_wire::settings::SettingId;

/// The number of payload bytes per line.
const BYTES_PER_LINE: usize = 32;

/// Returns a number of bytes as text.
pub(super) fn count_bytes(alloc: Global, count: u64) -> Result<String, AllocError> {
    match count {
        1 => String::from_str(alloc, "1 byte"),
        _ => format!(in alloc; "{count} bytes"),
    }
}

/// Appends the lines of a field section: one for each field, and one for the error that ends it.
pub(super) fn add_fields(text: &mut Lines, section: &FieldSection)
    ensures { Gains (field_lines section.now) text.old text.new }
{
    for line in &section.lines {
        text.add_formatted(words_of_field(text.alloc, line));
    }
    add_stop(text, section)
}

/// Appends the reason that the lines of a section end early, if they do.
fn add_stop(text: &mut Lines, section: &FieldSection)
    ensures { Gains (stop_lines section.now.fault) text.old text.new }
{
    match section.fault {
        None => {}
        Some(fault) => add_fault(text, fault, section.insert_count),
    }
}

/// Appends the line of an error in a section.
fn add_fault(text: &mut Lines, fault: SectionFault, insert_count: Option<u64>)
    ensures { Gains 1 text.old text.new }
{
    match (fault, insert_count) {
        (SectionFault::Malformed(fault), _) => {
            text.add_formatted(format!(in text.alloc; "        malformed: {fault}"))
        }
        (SectionFault::NeedsDynamicTable, None) => text.add("        needs the dynamic table"),
        (SectionFault::NeedsDynamicTable, Some(count)) => {
            let words = "needs the dynamic table, encoded Required Insert Count";
            text.add_formatted(format!(in text.alloc; "        {words} {count}"))
        }
        (SectionFault::NeedsInsertions(required, inserted), _) => {
            let words = format!(in text.alloc;
                "        needs {required} insertions, and the encoder stream has {inserted}"
            );
            text.add_formatted(words)
        }
    }
}

/// Returns the line of a field: its name in ASCII and the displayed form of its value, or the entry of
/// the dynamic table that has them.
fn words_of_field(alloc: Global, field: &Line) -> Result<String, AllocError>
    ensures { IfOk result (λ words. IsFieldLine field.now (string_bytes words)) }
{
    match field.unknown {
        None => words_of_known(alloc, field),
        Some(Unknown::Field(index)) => words_of_entry(alloc, index),
        Some(Unknown::Name(index)) => words_of_named(alloc, index, field),
    }
}

/// Returns the line of a field that is known.
fn words_of_known(alloc: Global, field: &Line) -> Result<String, AllocError>
    ensures { IfOk result (λ words. IsKnownLine field.now (string_bytes words)) }
{
    let mut words = String::from_str(alloc, "        ")?;
    add_name(&mut words, field.name.as_slice())?;
    words.push_str(" = ")?;
    add_escaped(&mut words, field.value.as_slice())?;
    Ok(words)
}

/// Appends the lines of what a frame says of requests and pushes.
pub(super) fn add_signal(text: &mut Lines, signal: &Signal)
    ensures { Gains (signal_lines signal.now) text.old text.new }
{
    match signal {
        Signal::Id(id) => text.add_formatted(format!(in text.alloc; "        ID {id}")),
        Signal::Priority(id, value) => {
            text.add_formatted(format!(in text.alloc; "        ID {id}"));
            text.add_formatted(words_of_priority(text.alloc, value.as_slice()));
        }
        Signal::Promise(id, section) => {
            text.add_formatted(format!(in text.alloc; "        push {id}"));
            add_fields(text, section);
        }
    }
}

/// Appends the lines of an instruction of this size. What it inserts has the line of a field.
pub(super) fn add_instruction(text: &mut Lines, at: usize, instruction: &Instruction, size: u64)
    ensures { Gains (instruction_lines instruction.now) text.old text.new }
{
    text.add_head(
        at,
        "instruction",
        words_of_instruction(text.alloc, instruction, size),
    );
    match instruction {
        Instruction::InsertStatic(_, line)
        | Instruction::InsertDynamic(line)
        | Instruction::InsertLiteral(line)
        | Instruction::Duplicate(line) => text.add_formatted(words_of_field(text.alloc, line)),
        Instruction::SetCapacity(_)
        | Instruction::AcknowledgeSection(_)
        | Instruction::CancelStream(_)
        | Instruction::IncrementCount(_) => {}
    }
}

/// Returns the details of an instruction: its name, its number, if it has one, and its size.
fn words_of_instruction(
    alloc: Global,
    instruction: &Instruction,
    size: u64,
) -> Result<String, AllocError> {
    let name = instruction.name();
    let size = count_bytes(alloc, size)?;
    match instruction {
        Instruction::SetCapacity(number) | Instruction::IncrementCount(number) => {
            format!(in alloc; "{name} {number}, {size}")
        }
        Instruction::InsertStatic(index, _) => format!(in alloc; "{name}, static {index}, {size}"),
        Instruction::AcknowledgeSection(id) | Instruction::CancelStream(id) => {
            format!(in alloc; "{name}, stream {id}, {size}")
        }
        Instruction::InsertDynamic(_) | Instruction::InsertLiteral(_) | Instruction::Duplicate(_) =>
            format!(in alloc; "{name}, {size}"),
    }
}

/// Returns the line of a priority: its displayed form.
fn words_of_priority(alloc: Global, value: &[u8]) -> Result<String, AllocError>
    ensures { IfOk result (λ words. IsPriorityLine value.now (string_bytes words)) }
{
    let mut words = String::from_str(alloc, "        priority = ")?;
    add_escaped(&mut words, value)?;
    Ok(words)
}

/// Returns the line of an entry of the dynamic table that is not known.
fn words_of_entry(alloc: Global, index: Index) -> Result<String, AllocError>
    ensures { IfOk result (λ words. string_bytes words ≡ entry_words index) }
{
    match index {
        Index::Relative(index) => format!(in alloc; "        (dynamic {index})"),
        Index::PostBase(index) => format!(in alloc; "        (dynamic post-base {index})"),
    }
}

/// Returns the line of a field whose name is that of such an entry.
fn words_of_named(alloc: Global, index: Index, field: &Line) -> Result<String, AllocError>
    ensures { IfOk result
        (λ words. IsNamedLine index field.now.value.items (string_bytes words)) }
{
    let mut words = words_of_entry(alloc, index)?;
    words.push_str(" = ")?;
    add_escaped(&mut words, field.value.as_slice())?;
    Ok(words)
}

/// Appends the lines of settings.
pub(super) fn add_settings(text: &mut Lines, settings: &[SettingLine])
    ensures { Gains (length settings.now) text.old text.new }
{
    for setting in settings {
        text.add_formatted(words_of_setting(text.alloc, setting));
    }
}

/// Returns the line of a setting.
fn words_of_setting(alloc: Global, setting: &SettingLine) -> Result<String, AllocError> {
    let SettingLine { id, value, .. } = *setting;
    let name = name_setting(alloc, setting)?;
    let flag = words_of_flag(setting.flag);
    format!(in alloc; "        {name} ({id:#x}) = {value}{flag}")
}

/// Returns the note for a setting with this flag.
fn words_of_flag(flag: Option<SettingIssue>) -> &'static str {
    match flag {
        None => "",
        Some(SettingIssue::Reserved) => ", which must not be sent (RFC 9114, section 7.2.4.1)",
        Some(SettingIssue::Repeated) => ", which is repeated (RFC 9114, section 7.2.4)",
        Some(SettingIssue::Value) => ", which is neither 0 nor 1",
    }
}

/// Returns the name of a setting, or a description if it has no name.
pub(crate) fn name_setting(alloc: Global, setting: &SettingLine) -> Result<String, AllocError> {
    match (setting.setting(), setting.flag) {
        (Some(SettingId::Exercise(_)), _) => String::from_str(alloc, "reserved"),
        (Some(known), _) => format!(in alloc; "{known}"),
        (None, Some(SettingIssue::Reserved)) => String::from_str(alloc, "HTTP/2 setting"),
        (None, _) => String::from_str(alloc, setting.draft_name().unwrap_or("unknown")),
    }
}

/// Appends the lines of a capsule. They are indented, unless the capsule is an item with an
/// offset.
pub(super) fn add_capsule(text: &mut Lines, at: Option<usize>, capsule: &CapsuleItem)
    ensures { Gains (capsule_lines capsule.now) text.old text.new }
{
    text.add_capsule(at, capsule);
    add_close(text, &capsule.close);
    add_limit(text, capsule.limit)
}

/// Appends the lines of a limit, if there is one.
fn add_limit(text: &mut Lines, limit: Option<FlowLimit>)
    ensures { Gains (limit_lines limit) text.old text.new }
{
    match limit {
        None => {}
        Some(FlowLimit::Session(limit)) => {
            text.add_formatted(format!(in text.alloc; "            limit = {limit}"));
        }
        Some(FlowLimit::Stream(stream, limit)) => {
            text.add_formatted(format!(in text.alloc; "            stream = {stream}"));
            text.add_formatted(format!(in text.alloc; "            limit = {limit}"));
        }
    }
}

/// Appends the lines of the reason for closing a session, if there is one.
fn add_close(text: &mut Lines, close: &Option<CloseReason>)
    ensures { Gains (close_lines close.now) text.old text.new }
{
    match close {
        None => {}
        Some(close) => add_reason(text, close),
    }
}

/// Appends the lines of the error code and reason for closing a session.
fn add_reason(text: &mut Lines, close: &CloseReason)
    ensures { Gains 2 text.old text.new }
{
    let code = close.code;
    text.add_formatted(format!(in text.alloc; "            code = {code}"));
    text.add_formatted(words_of_reason(text.alloc, close));
}

/// Returns the line of the reason for closing a session: its displayed form.
fn words_of_reason(alloc: Global, close: &CloseReason) -> Result<String, AllocError>
    ensures { IfOk result (λ words. IsReasonLine close.now (string_bytes words)) }
{
    let mut words = String::from_str(alloc, "            reason = ")?;
    add_escaped(&mut words, close.reason.as_bytes())?;
    Ok(words)
}

/// Appends the lines of warnings.
pub(super) fn add_warnings(text: &mut Lines, warnings: &[Warning])
    ensures { Gains (length warnings.now) text.old text.new }
{
    for warning in warnings {
        text.add_warning(warning);
    }
}

/// Appends lines of bytes in hexadecimal.
pub(super) fn add_hex(text: &mut Lines, bytes: &[u8])
    ensures { Gains (hex_lines (length bytes.now)) text.old text.new }
{
    for row in 0..bytes.len().div_ceil(BYTES_PER_LINE) {
        let start = row * BYTES_PER_LINE;
        let end = bytes.len().min(start + BYTES_PER_LINE);
        text.add_formatted(hex_line(text.alloc, &bytes[start..end]));
    }
}

/// Returns the line of a row of bytes.
fn hex_line(alloc: Global, row: &[u8]) -> Result<String, AllocError> {
    let mut words = String::with_capacity(alloc, 8 + 3 * BYTES_PER_LINE)?;
    words.push_str("       ")?;
    add_digits(&mut words, row)?;
    Ok(words)
}

/// Appends the hexadecimal digits of `bytes`, with a space before each byte.
pub(crate) fn add_digits(words: &mut String, bytes: &[u8]) -> Result<(), AllocError>
    ensures { IfOk result (λ _. string_bytes words.new
        ≡ string_bytes words.old ++ flat_map (λ byte. 32 ∷ hex_byte byte) bytes.now) }
{
    for byte in bytes {
        words.push(' ')?;
        add_hex_byte(words, *byte)?;
    }
    Ok(())
}
