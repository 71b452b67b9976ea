//! Whole sections, read with the decoder of a connection (RFC 9204, sections 2.2 and 4.5).
ghost use Rattle.std.specs.Prelude.{◌≡◌, ◌≢◌, IfErr};
ghost use Rattle.wtp_dynamic.specs.declared.error.SectionError.TheVariants as error;
ghost use Rattle.wtp_dynamic_fields.specs.Lists.{list_error, list_code, LinesGive};
ghost use Rattle.wtp_dynamic_fields.specs.Reading.{SectionGives, TableGives};

use std::alloc::{AllocError, Global};
use thiserror::Error;
use wtp_core::error::Code;
use wtp_dynamic::error::SectionError;
use wtp_dynamic::section;
use wtp_dynamic::table::DynamicTable;
use wtp_dynamic_decoder::decoder::{Opened, QpackDecoder};
use wtp_dynamic_decoder::lines::{LineRoom, SectionLines};
use wtp_fields::fields::{FieldList, left_after};

/// A section that was read, as far as the encoder stream allows.
#[derive(Drop)]
pub enum Decoded {
    /// Its fields, and its Required Insert Count: what [`QpackDecoder::acknowledge`] asks for.
    Fields(FieldList, u64),
    /// It needs so many insertions, and there were fewer.
    Blocked(u64),
}

/// The reason why a section was not decoded to a list.
#[derive(Debug, Drop, Clone, Copy, Error)]
pub enum TableSectionError {
    /// The section cannot be decoded, or has to wait and may not. Contains the first error in byte
    /// order, which is never [`SectionError::Memory`].
    #[error("{0}")]
    Section(SectionError),
    /// The size of the fields exceeds the limit.
    #[error("the fields are larger than the limit")]
    TooLarge,
    /// Memory allocation failed.
    #[error("no memory")]
    Memory,
}

impl From<SectionError> for TableSectionError {
    ghost from_gives = { λ fault e. e ≡ list_error fault };

    fn from(fault: SectionError) -> TableSectionError {
        match fault {
            SectionError::Memory => TableSectionError::Memory,
            fault => TableSectionError::Section(fault),
        }
    }
}

impl From<AllocError> for TableSectionError {
    ghost use Rattle.std.specs.Prelude.{◌≡◌, ◌≢◌, IfErr};
    ghost use Rattle.wtp_dynamic.specs.declared.error.SectionError.TheVariants as error;
    ghost use Rattle.wtp_dynamic_fields.specs.declared.section.TableSectionError.TheVariants.{Memory};

    ghost from_gives = { λ _ e. e ≡ Memory };

    fn from(_e: AllocError) -> TableSectionError {
        TableSectionError::Memory
    }
}

impl TableSectionError {
    /// Returns `QPACK_DECOMPRESSION_FAILED` for a section that cannot be decoded (RFC 9204, section
    /// 6), and `None` otherwise. Exceeding the limit is not an error of the peer: a server may
    /// respond with status code 431 (RFC 9114, section 4.2.2).
    pub fn code(&self) -> Option<Code>
        ensures { result ≡ list_code self.now }
    {
        match self {
            TableSectionError::Section(fault) => fault.code(),
            TableSectionError::TooLarge | TableSectionError::Memory => None,
        }
    }
}

/// Decodes a field section of a stream to its fields, in order, with the decoder of the connection.
///
/// `limit` bounds the size of the list, as in [`FieldList::decode`]: for each field, the lengths of
/// its name and its value in bytes, plus 32 (RFC 9114, section 4.2.2). The limit is checked before
/// a field is copied.
///
/// Returns [`Decoded::Blocked`] if the section needs more insertions than there were. The stream
/// then waits; the caller keeps the bytes, and decodes them again once
/// [`QpackDecoder::insert_count`] has reached the count. After any other result the stream no longer
/// waits, unless its prefix has a fault or memory was refused for its wait: then nothing has changed.
///
/// Stops at the first faulty line in byte order: returns [`TableSectionError::Section`] if it
/// cannot be decoded, and [`TableSectionError::TooLarge`] if the size exceeds the limit with it. An
/// invalid prefix of the section, and a section that has to wait where as many other streams wait
/// as may, are also a [`TableSectionError::Section`]. A section that was not read to its end is not
/// acknowledged: its stream is to be cancelled ([`QpackDecoder::cancel`]), unless the connection
/// ends.
///
/// Returns [`TableSectionError::Memory`] only if allocation failed: for a stream that has to wait
/// and may; or at a line after valid ones that has a
/// Huffman-encoded string, or that is valid and does not exceed the limit. The section can then be
/// decoded again.
pub fn decode(
    alloc: Global,
    decoder: &mut QpackDecoder,
    stream: u64,
    section: &[u8],
    limit: u64,
) -> Result<Decoded, TableSectionError>
    ensures read { SectionGives limit stream section.now decoder.old decoder.new result }
    ensures no_fault { IfErr result (λ e. e ≢ TableSectionError.Section error.Memory) }
{
    match decoder.open(stream, section) {
        Ok(Opened::Lines(lines)) => {
            let required = lines.required();
            match read_lines(alloc, decoder.table(), lines, section.len(), limit) {
                Ok(list) => Ok(Decoded::Fields(list, required)),
                Err(fault) => Err(fault),
            }
        }
        Ok(Opened::Blocked(required)) => Ok(Decoded::Blocked(required)),
        Err(fault) => Err(TableSectionError::from(fault)),
    }
}

/// Decodes a field section with a dynamic table, to its fields, in order. It is as [`decode`], but keeps
/// no account of the streams that wait: the caller counts them (RFC 9204, section 2.1.2).
///
/// Returns [`Decoded::Blocked`] if the section needs more insertions than there were.
///
/// # Errors
///
/// [`TableSectionError::Section`] for an invalid prefix, and for the first line that cannot be decoded;
/// [`TableSectionError::TooLarge`] if the size exceeds `limit` with a line before that; and
/// [`TableSectionError::Memory`] only if allocation failed, at a line after valid ones that has a
/// Huffman-encoded string, or that is valid and does not exceed the limit. The section can then be
/// decoded again.
pub fn decode_with_table(
    alloc: Global,
    table: &DynamicTable,
    section: &[u8],
    limit: u64,
) -> Result<Decoded, TableSectionError>
    ensures read { TableGives limit table.now section.now result }
    ensures no_fault { IfErr result (λ e. e ≢ TableSectionError.Section error.Memory) }
{
    let prefix = match section::read_prefix(table, section) {
        Ok(prefix) => prefix,
        Err(fault) => return Err(TableSectionError::from(fault)),
    };
    if section::is_blocked(table, &prefix) {
        return Ok(Decoded::Blocked(prefix.required));
    }
    let required = prefix.required;
    let lines = SectionLines::new(prefix);
    match read_lines(alloc, table, lines, section.len(), limit) {
        Ok(list) => Ok(Decoded::Fields(list, required)),
        Err(fault) => Err(fault),
    }
}

// Returns the fields of the lines of a section with so many bytes.
fn read_lines<'a>(
    alloc: Global,
    table: &'a DynamicTable,
    opened: SectionLines<'a>,
    len: usize,
    limit: u64,
) -> Result<FieldList, TableSectionError>
    requires { opened.1 ≡ opened.0.lines }
    ensures read { LinesGive limit table.now opened.entry.0 result }
    ensures no_fault { IfErr result (λ e. e ≢ TableSectionError.Section error.Memory) }
{
    let mut lines = opened;
    let mut room = LineRoom::new(alloc);
    // A Huffman-encoded text is rarely longer than twice its encoding; one of a table has a byte or
    // two.
    let size = len.saturating_mul(2).max(256) as u64;
    let mut list = FieldList::with_room(alloc, size.min(limit) as usize);
    let mut left = limit;
    'lines: loop {
        match lines.next_line(table, &mut room) {
            None => return Ok(list),
            Some(Err(fault)) => return Err(TableSectionError::from(fault)),
            Some(Ok(line)) => match left_after(left, line) {
                None => return Err(TableSectionError::TooLarge),
                Some(less) => {
                    left = less;
                    list.append(line.name, line.value)?;
                }
            },
        }
    }
}
