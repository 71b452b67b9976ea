//! Field sections (RFC 9204, section 4.5).
ghost use Rattle.std.specs.Prelude.{◌≡◌, ◌<◌, ◌≤◌, true, false, Ok, Some, IfOk, option_map};
ghost use Rattle.wtp_qpack.specs.FieldLine.{bit};
ghost use Rattle.wtp_dynamic.specs.Faults.{Reads, ReadsUnlessMemory};
ghost use Rattle.wtp_dynamic.specs.Section.{prefix_at, table_line_at};
ghost use Rattle.wtp_dynamic.specs.SectionView.{prefix_of};
ghost use Rattle.wt_inspection.specs.Insertions.{latest};
ghost use Rattle.wt_inspection.specs.Recording.{AfterSection};
ghost use Rattle.wt_inspection.specs.Sections.{HasNoLines, IsAlone, IsSectionWith, IsSent, ShowsLines};
ghost use Rattle.wt_inspection.specs.Sections.{after_integers, entry_line_at, entry_name_at};
ghost use Rattle.wt_inspection.specs.Sections.{index_of, insert_count_of, known, line_at, no_prefix};
ghost use Rattle.wt_inspection.specs.Sections.{needs_table, reference_at, refers, shown_of};

use crate::insertions::{Insertions, latest};
use crate::reading::{Next, Then, fault};
use std::alloc::{AllocError, Global};
use wt_inspection_model::item::{FieldSection, Index, Line, SectionFault, Unknown};
use wtp_core::error::ErrorCode;
use wtp_dynamic::error::SectionError;
use wtp_dynamic::section::{self, Prefix};
use wtp_dynamic::table::DynamicTable;
use wtp_qpack::parts::{Texts, read_integer, read_string};

/// Lines, and what is missing of them or wrong with them.
#[derive(Drop)]
struct Lines {
    lines: Vec<Line>,
    fault: Option<SectionFault>,
}

/// Returns the lines of a section, up to the first that cannot be read. The entries of the dynamic
/// table are those that the encoder stream inserted.
pub(crate) fn read_section(
    alloc: Global,
    sent: Option<&Insertions<'_>>,
    bytes: &[u8],
) -> Result<FieldSection, AllocError>
    ensures { IfOk result
        (λ section. IsSectionWith (option_map (λ i. i.now) sent.entry) bytes.now section) }
{
    let insert_count = insert_count_of(bytes);
    let Lines { lines, fault } = match sent {
        None => read_alone(alloc, insert_count, bytes)?,
        Some(sent) => read_sent(alloc, sent, bytes)?,
    };
    Ok(FieldSection {
        insert_count,
        lines,
        fault,
    })
}

/// Returns the lines of a section without an encoder stream, whose encoded count is this.
fn read_alone(alloc: Global, count: Option<u64>, bytes: &[u8]) -> Result<Lines, AllocError>
    ensures { IfOk result (λ found. IsAlone (needs_table count) bytes.now
        (found.lines.items, found.fault)) }
{
    let table = DynamicTable::new(alloc, 0);
    if needs_table(count) {
        return match after_integers(bytes) {
            Ok(lines) => read_bare(alloc, &table, lines),
            Err(cause) => Ok(no_lines(alloc, cause)),
        };
    }
    match section::read_prefix(&table, bytes) {
        Ok(prefix) => read_lines(alloc, true, &table, &prefix, None),
        Err(cause) => Ok(no_lines(alloc, cause)),
    }
}

/// Returns whether a section with this encoded count needs the dynamic table.
fn needs_table(count: Option<u64>) -> bool
    ensures { result ≡ needs_table count }
{
    match count {
        None => false,
        Some(count) => count > 0,
    }
}

/// Returns the bytes after a prefix of which only the integers are read.
#[tactic(auto, unfolding(crate::specs::Sections::after_integers))]
fn after_integers(bytes: &[u8]) -> Result<&[u8], SectionError>
    ensures { Reads (λ lines. lines.now) result (after_integers bytes.now) }
{
    let (_, rest) = read_integer::<8>(bytes)?;
    let (_, lines) = read_integer::<7>(rest)?;
    Ok(lines)
}

/// Returns the lines of a section that needs the dynamic table, and there is none.
fn read_bare<'a>(
    alloc: Global,
    table: &'a DynamicTable,
    lines: &'a [u8],
) -> Result<Lines, AllocError>
    ensures { IfOk result (λ found. ShowsLines false table.now (no_prefix lines.now)
        (Some SectionFault.NeedsDynamicTable) (found.lines.items, found.fault)) }
{
    let prefix = Prefix {
        required: 0,
        base: 0,
        lines,
    };
    let whole = Some(SectionFault::NeedsDynamicTable);
    read_lines(alloc, false, table, &prefix, whole)
}

/// Returns no lines of a section whose prefix has this fault.
fn no_lines(alloc: Global, cause: SectionError) -> Lines
    ensures { HasNoLines cause (result.lines.items, result.fault) }
{
    Lines {
        lines: Vec::new(alloc),
        fault: Some(SectionFault::Malformed(cause)),
    }
}

/// Returns the lines of a section with an encoder stream.
fn read_sent(alloc: Global, sent: &Insertions<'_>, bytes: &[u8]) -> Result<Lines, AllocError>
    ensures { IfOk result (λ found. IsSent sent.now (prefix_at sent.now.table bytes.now)
        (found.lines.items, found.fault)) }
{
    let prefix = match section::read_prefix(sent.table(), bytes) {
        Ok(prefix) => latest(sent.table(), prefix),
        Err(cause) => return Ok(no_lines(alloc, cause)),
    };
    if section::is_blocked(sent.table(), &prefix) {
        let inserted = sent.table().insert_count();
        let whole = Some(SectionFault::NeedsInsertions(prefix.required, inserted));
        return read_lines(alloc, false, sent.table(), &prefix, whole);
    }
    let moment = sent.table_at(alloc, prefix.required)?;
    read_lines(alloc, true, moment.table(), &prefix, None)
}

/// Returns the lines after a prefix, up to the first that cannot be read. If there is none, `whole`
/// says what is missing of the lines.
fn read_lines<'a>(
    alloc: Global,
    is_known: bool,
    table: &'a DynamicTable,
    prefix: &Prefix<'a>,
    whole: Option<SectionFault>,
) -> Result<Lines, AllocError>
    ensures { IfOk result (λ found. ShowsLines is_known table.now (prefix_of prefix.now) whole
        (found.lines.items, found.fault)) }
{
    let mut lines = Vec::new(alloc);
    let mut room = Vec::new(alloc);
    let mut rest = prefix.lines;
    while !rest.is_empty() {
        match take_line(alloc, &mut room, is_known, table, prefix, rest) {
            Ok((line, behind)) => {
                lines.push(line)?;
                rest = behind;
            }
            Err(SectionError::Memory) => return Err(AllocError),
            Err(cause) => {
                return Ok(Lines {
                    lines,
                    fault: Some(SectionFault::Malformed(cause)),
                });
            }
        }
    }
    Ok(Lines {
        lines,
        fault: whole,
    })
}

/// Returns the line at the start, and the bytes after it.
fn take_line<'a>(
    alloc: Global,
    room: &mut Vec<u8>,
    is_known: bool,
    table: &'a DynamicTable,
    prefix: &Prefix<'a>,
    bytes: &'a [u8],
) -> Result<(Line, &'a [u8]), SectionError>
    ensures { ReadsUnlessMemory (λ x. (shown_of x.0, x.1.now)) result
        (line_at is_known table.now (prefix_of prefix.now) bytes.now) }
{
    if !is_known && refers(bytes) {
        return take_reference(alloc, room, bytes);
    }
    take_known(alloc, room, table, prefix, bytes)
}

/// Returns the line at the start, whose entry is known.
fn take_known<'a>(
    alloc: Global,
    room: &mut Vec<u8>,
    table: &'a DynamicTable,
    prefix: &Prefix<'a>,
    bytes: &'a [u8],
) -> Result<(Line, &'a [u8]), SectionError>
    ensures { ReadsUnlessMemory (λ x. (shown_of x.0, x.1.now)) result
        (known (table_line_at table.now (prefix_of prefix.now) bytes.now)) }
{
    let parts = section::read_line(room, table, prefix, bytes)?;
    let (name, value) = parts.texts(room.as_slice());
    let line = line_of(alloc, None, name, value)?;
    Ok((line, parts.rest))
}

/// Returns a line with a copy of this name and this value.
fn line_of(
    alloc: Global,
    unknown: Option<Unknown>,
    name: &[u8],
    value: &[u8],
) -> Result<Line, AllocError>
    ensures { IfOk result (λ line. shown_of line ≡ (unknown, (name.now, value.now))) }
{
    let mut name_copy = Vec::new(alloc);
    name_copy.extend_from_slice(name)?;
    let mut value_copy = Vec::new(alloc);
    value_copy.extend_from_slice(value)?;
    Ok(Line {
        name: name_copy,
        value: value_copy,
        unknown,
    })
}

/// Returns whether the line at the start refers to the dynamic table.
#[tactic(auto, unfolding(crate::specs::Sections::refers))]
fn refers(bytes: &[u8]) -> bool
    ensures { result ≡ refers bytes.now }
{
    let [first, ..] = bytes else {
        return false;
    };
    match (
        has_bit(*first, 7),
        has_bit(*first, 6),
        has_bit(*first, 5),
        has_bit(*first, 4),
    ) {
        (true, is_static, _, _) => !is_static,
        (false, true, _, is_static) => !is_static,
        (false, false, true, _) => false,
        (false, false, false, _) => true,
    }
}

/// Returns whether a bit is set, where the lowest bit is 0.
fn has_bit(byte: u8, place: u32) -> bool
    requires { place < 8 }
    ensures { result ≡ bit place byte }
{
    byte >> place & 1 == 1
}

/// Returns the line at the start, which refers to an entry that is not known.
#[tactic(auto, unfolding(crate::specs::Sections::reference_at))]
fn take_reference<'a>(
    alloc: Global,
    room: &mut Vec<u8>,
    bytes: &'a [u8],
) -> Result<(Line, &'a [u8]), SectionError>
    ensures { ReadsUnlessMemory (λ x. (shown_of x.0, x.1.now)) result (reference_at bytes.now) }
{
    let [first, ..] = bytes else {
        return Err(SectionError::UnexpectedEnd);
    };
    match (has_bit(*first, 7), has_bit(*first, 6), has_bit(*first, 4)) {
        (true, _, _) => take_entry::<6>(alloc, false, bytes),
        (false, true, _) => take_name::<4>(alloc, room, false, bytes),
        (false, false, true) => take_entry::<4>(alloc, true, bytes),
        (false, false, false) => take_name::<3>(alloc, room, true, bytes),
    }
}

/// Returns the index of an entry, counted on from the Base or back from it.
fn index_of(is_on: bool, index: u64) -> Index
    ensures { result ≡ index_of is_on index }
{
    if is_on {
        Index::PostBase(index)
    } else {
        Index::Relative(index)
    }
}

/// Returns the line of an entry that is not known.
#[tactic(auto, unfolding(crate::specs::Sections::entry_line_at))]
fn take_entry<const N: u32>(
    alloc: Global,
    is_on: bool,
    bytes: &[u8],
) -> Result<(Line, &[u8]), SectionError>
    requires some { 1 ≤ N }
    requires few { N ≤ 7 }
    ensures { ReadsUnlessMemory (λ x. (shown_of x.0, x.1.now)) result
        (entry_line_at is_on N bytes.now) }
{
    let (index, rest) = read_integer::<N>(bytes)?;
    let unknown = Unknown::Field(index_of(is_on, index));
    let line = line_of(alloc, Some(unknown), &[], &[])?;
    Ok((line, rest))
}

/// Returns the line of the name of an entry that is not known, and of a value.
#[tactic(auto, unfolding(crate::specs::Sections::entry_name_at))]
fn take_name<'a, const N: u32>(
    alloc: Global,
    room: &mut Vec<u8>,
    is_on: bool,
    bytes: &'a [u8],
) -> Result<(Line, &'a [u8]), SectionError>
    requires some { 1 ≤ N }
    requires few { N ≤ 7 }
    ensures { ReadsUnlessMemory (λ x. (shown_of x.0, x.1.now)) result
        (entry_name_at is_on N bytes.now) }
{
    room.clear();
    let (index, rest) = read_integer::<N>(bytes)?;
    let (value, behind) = read_string::<7>(room, rest.len() * 2, Texts::Octets, rest)?;
    let unknown = Unknown::Name(index_of(is_on, index));
    let line = line_of(alloc, Some(unknown), &[], value.unwrap_or(room.as_slice()))?;
    Ok((line, behind))
}

/// Returns what follows a section: these bytes, or the end of the reading if it is malformed.
pub(crate) fn section_then(at: usize, section: &FieldSection, next: Next) -> Then
    ensures { AfterSection at section.now.fault (Ok next) result }
{
    match section.fault {
        Some(SectionFault::Malformed(cause)) => {
            Err(fault(at, ErrorCode::Decompression, describe(cause)))
        }
        Some(SectionFault::NeedsDynamicTable) | Some(SectionFault::NeedsInsertions(_, _)) => {
            Ok(next)
        }
        None => Ok(next),
    }
}

/// Returns why a section is malformed.
fn describe(cause: SectionError) -> &'static str {
    match cause {
        SectionError::UnexpectedEnd => {
            "the field section ends within a field line (RFC 9204, section 4.5)"
        }
        SectionError::IntegerOverflow => "an integer is too large (RFC 9204, section 4.1.1)",
        SectionError::InvalidString => {
            "a string literal is not Huffman text (RFC 9204, section 4.1.2)"
        }
        SectionError::IndexNotFound => {
            "the static table has no entry of an index (RFC 9204, section 3.1)"
        }
        SectionError::EntryNotFound => {
            "a line refers to an entry that the section cannot use (RFC 9204, section 2.2.3)"
        }
        SectionError::InvalidInsertCount => {
            "no Required Insert Count has the encoded number (RFC 9204, section 4.5.1.1)"
        }
        SectionError::NegativeBase => "the Base is negative (RFC 9204, section 4.5.1.2)",
        SectionError::TooManyBlocked | SectionError::Memory => {
            "the field section cannot be decoded (RFC 9204, section 2.2)"
        }
    }
}

/// Returns the Required Insert Count as it is encoded, an integer with a prefix of 8 bits (RFC
/// 9204, sections 4.1.1 and 4.5.1.1). `None` if it is cut, or above 2^64 - 1.
fn insert_count_of(bytes: &[u8]) -> Option<u64>
    ensures { result ≡ insert_count_of bytes.now }
{
    match read_integer::<8>(bytes) {
        Ok((count, _)) => Some(count),
        Err(_) => None,
    }
}
