//! The encoder stream of the end that sent a recording.
ghost use Rattle.std.specs.Prelude.{◌≡◌, ◌≢◌, ◌^◌, ◌<◌, ℕ, List, IfOk, MatchResult};
ghost use Rattle.wt_inspection.specs.Insertions.{IsTableAt, instructions_in, latest};
ghost use Rattle.wtp_dynamic.specs.SectionView.{prefix_of};
ghost use Rattle.wtp_dynamic.specs.Stream.{Breaks, Stands};
ghost use Rattle.wtp_dynamic.specs.Table.{Table, empty_table};
ghost use Rattle.wtp_dynamic.specs.declared.error.EncoderStreamError.TheVariants.{Memory};

use std::alloc::{AllocError, Global};
use std::marker::Model;
use wtp_core::varint::first_varint;
use wtp_dynamic::error::EncoderStreamError;
use wtp_dynamic::section::{self, Prefix};
use wtp_dynamic::stream::EncoderStream;
use wtp_dynamic::table::DynamicTable;

/// The encoder stream of the end that sent a recording (RFC 9204, section 4.3), from its first
/// instruction on: the dynamic table of the sections in the recording is what it makes.
#[derive(Drop)]
pub struct Insertions<'a> {
    limit: u64,
    bytes: &'a [u8],
    whole: EncoderStream,
}

// Contracts treat the stream as the limit of the capacity, its bytes, and the table after them.
impl<'a> Model for Insertions<'a> {
    ghost use Rattle.std.specs.Prelude.{◌^◌, ◌<◌};
    ghost use Rattle.wtp_dynamic.specs.Stream.{Stands};
    ghost use Rattle.wtp_dynamic.specs.Table.{empty_table};
    ghost use Rattle.wt_inspection.specs.Insertions.{Sent};

    ghost Value = { Sent };

    ghost view = { λ i. record { limit = i.limit; bytes = i.bytes.now; table = i.whole.0 } };

    ghost invariant = { λ i. (i.limit < 2 ^ 60)
        × Stands (empty_table i.limit) i.bytes.now i.whole.0 i.whole.1 };
}

impl<'a> Insertions<'a> {
    /// Reads the bytes of an encoder stream, after its stream type. `limit` is the largest capacity
    /// that the other end allowed, by its setting SETTINGS_QPACK_MAX_TABLE_CAPACITY. Bytes of an
    /// instruction that is cut are ignored.
    ///
    /// Returns the first fault, or [`EncoderStreamError::Memory`] if allocation failed.
    pub fn read(alloc: Global, limit: u64, bytes: &'a [u8]) -> Result<Self, EncoderStreamError>
        requires { limit < 2 ^ 60 }
        ensures { MatchResult result
            (λ sent. (sent.limit ≡ limit) × (sent.bytes ≡ bytes.now)
            × (held : List ℕ) × Stands (empty_table limit) bytes.now sent.table held)
            (λ e. e ≢ Memory → (table : Table) × Breaks (empty_table limit) bytes.now table e) }
    {
        let mut whole = EncoderStream::new(alloc, limit);
        match whole.read(alloc, bytes) {
            Ok(()) => Ok(Insertions {
                limit,
                bytes,
                whole,
            }),
            Err(fault) => Err(fault),
        }
    }

    /// Returns the table after all bytes.
    pub(crate) fn table(&self) -> &DynamicTable
        ensures { result.now ≡ self.now.table }
    {
        self.whole.table()
    }

    /// Returns the table after the fewest bytes with which so many entries were inserted, or after
    /// all bytes.
    pub(crate) fn table_at(&self, alloc: Global, count: u64) -> Result<EncoderStream, AllocError>
        ensures { IfOk result (λ stream. IsTableAt self.now.limit self.now.bytes count stream.0) }
    {
        let mut stream = EncoderStream::new(alloc, self.limit);
        for i in 0..self.bytes.len() {
            if stream.table().insert_count() >= count {
                return Ok(stream);
            }
            match stream.read(alloc, &self.bytes[i..i + 1]) {
                Ok(()) => {}
                Err(_) => return Err(AllocError),
            }
        }
        Ok(stream)
    }
}

/// Returns the instructions in a recorded encoder stream: what follows its stream type, or all
/// bytes if they do not begin with that. No encoder stream without its type begins so, since the
/// first instruction sets the capacity, whose first byte is 0x20 to 0x3f.
pub fn instructions_in(bytes: &[u8]) -> &[u8]
    ensures { result.now ≡ instructions_in bytes.now }
{
    match first_varint(bytes) {
        Some((number, size)) if number.into_inner() == 2 => bytes.split_at(size).1,
        _ => bytes,
    }
}

/// Returns the prefix of a section with the count that its encoded number means once all
/// insertions were read.
pub(crate) fn latest<'s>(table: &DynamicTable, prefix: Prefix<'s>) -> Prefix<'s>
    ensures { prefix_of result ≡ latest table.now (prefix_of prefix.entry) }
{
    let range = 2 * (table.limit() / 32);
    if section::is_blocked(table, &prefix) && range < prefix.required && range <= prefix.base {
        Prefix {
            required: prefix.required - range,
            base: prefix.base - range,
            lines: prefix.lines,
        }
    } else {
        prefix
    }
}
