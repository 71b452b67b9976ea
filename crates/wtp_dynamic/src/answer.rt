//! Whole field sections with the dynamic table (RFC 9204, sections 2.2 and 4.5).

ghost use Rattle.std.specs.Prelude.{◌≡◌, ◌≢◌, ℕ, ◌^◌, ◌<◌, List, [], ◌++◌, length, IfOk, IfErr, Ok, Err, MatchResult};
ghost use Rattle.std.specs.List.{flat_map};
ghost use Rattle.wtp_qpack.specs.Field.{Field};
ghost use Rattle.wtp_dynamic.specs.Faults.{ReadsUnlessMemory};
ghost use Rattle.wtp_dynamic.specs.Table.{Table, empty_table};
ghost use Rattle.wtp_dynamic.specs.Section.{table_line_at, AreTableLines};
ghost use Rattle.wtp_dynamic.specs.SectionView.{prefix_of};
ghost use Rattle.wtp_dynamic.specs.Answer.{Answers};
ghost use Rattle.wtp_dynamic.specs.Stream.{Stands, Breaks};
ghost use Rattle.wtp_dynamic.specs.declared.error.SectionError.TheVariants.{Memory};
ghost use Rattle.wtp_dynamic.specs.declared.error.EncoderStreamError.TheVariants as stream;

use crate::error::{EncoderStreamError, SectionError};
use crate::section::{self, Prefix};
use crate::stream::EncoderStream;
use crate::table::{DynamicTable, Entry};
use std::alloc::Global;

/// What a decoder answers for a section.
#[derive(Drop)]
pub enum Answer {
    /// Its fields, in their order.
    Fields(Vec<Entry>),
    /// It needs so many insertions, and there were fewer.
    Blocked(u64),
}

/// Copies the field of the line at the start, and returns the bytes after it.
fn copy_line<'a>(
    alloc: Global,
    room: &mut Vec<u8>,
    table: &'a DynamicTable,
    prefix: &Prefix<'a>,
    bytes: &'a [u8],
) -> Result<(Entry, &'a [u8]), SectionError>
    ensures { ReadsUnlessMemory (λ x. (x.0, x.1.now)) result
        (table_line_at table.now (prefix_of prefix.now) bytes.now) }
{
    let parts = section::read_line(room, table, prefix, bytes)?;
    let (name, value) = parts.texts(room.as_slice());
    let field = Entry::new(alloc, name, value)?;
    Ok((field, parts.rest))
}

/// Returns the fields of the lines of a section that is not blocked.
fn copy_lines<'a>(
    alloc: Global,
    table: &'a DynamicTable,
    prefix: &Prefix<'a>,
) -> Result<Vec<Entry>, SectionError>
    ensures found { IfOk result (λ fields. AreTableLines table.now (prefix_of prefix.now)
        prefix.now.lines.now fields.items []) }
    ensures fault { IfErr result (λ e. (fields : List Field) × (rest : List ℕ)
        × AreTableLines table.now (prefix_of prefix.now) prefix.now.lines.now fields rest
        × (0 < length rest)
        × (e ≢ Memory → table_line_at table.now (prefix_of prefix.now) rest ≡ Err e)) }
{
    let mut fields = Vec::new(alloc);
    let mut room = Vec::new(alloc);
    let mut rest = prefix.lines;
    while !rest.is_empty() {
        let (field, behind) = copy_line(alloc, &mut room, table, prefix, rest)?;
        fields.push(field)?;
        rest = behind;
    }
    Ok(fields)
}

/// Returns the fields of a section, or that it is blocked: exactly if its Required Insert Count is
/// above the insertions so far.
///
/// Returns the first fault in byte order, or [`SectionError::Memory`] if allocation fails.
pub fn decode<'a>(
    alloc: Global,
    table: &'a DynamicTable,
    section: &'a [u8],
) -> Result<Answer, SectionError>
    ensures { Answers table.now section.now result }
{
    let prefix = match section::read_prefix(table, section) {
        Ok(prefix) => prefix,
        Err(fault) => return Err(fault),
    };
    if section::is_blocked(table, &prefix) {
        return Ok(Answer::Blocked(prefix.required));
    }
    match copy_lines(alloc, table, &prefix) {
        Ok(fields) => Ok(Answer::Fields(fields)),
        Err(fault) => Err(fault),
    }
}

/// Reads pieces of an encoder stream, and then a section: the answer is that of the table to which
/// the joined pieces lead, or they have a fault.
pub fn decode_after(
    alloc: Global,
    limit: u64,
    pieces: &[&[u8]],
    section: &[u8],
) -> Result<Result<Answer, SectionError>, EncoderStreamError>
    requires { limit < 2 ^ 60 }
    ensures { let bytes = flat_map (λ piece. piece.now) pieces.now in MatchResult result
        (λ answer. (table : Table) × (held : List ℕ) × Stands (empty_table limit) bytes table held
        × Answers table section.now answer)
        (λ e. e ≢ stream.Memory → (table : Table) × Breaks (empty_table limit) bytes table e) }
{
    let mut stream = EncoderStream::new(alloc, limit);
    match stream.read_pieces(alloc, pieces) {
        Ok(()) => Ok(decode(alloc, stream.table(), section)),
        Err(fault) => Err(fault),
    }
}
