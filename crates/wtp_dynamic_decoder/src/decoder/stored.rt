//! A decoder in bytes of a fixed layout, as a caller in C keeps it between two calls.

ghost use Rattle.std.specs.Prelude.{◌≡◌, ℕ, ◌^◌, ◌<◌, ◌≤◌, List, [], length, IfOk, MatchOption};
ghost use Rattle.wtp_dynamic.specs.declared.error.EncoderStreamError.{EncoderStreamError};
ghost use Rattle.wtp_dynamic.specs.Front.{most_bytes};
ghost use Rattle.wtp_dynamic.specs.Stream.{IsCut};
ghost use Rattle.wtp_dynamic.specs.Table.{insert_count, table_size};
ghost use Rattle.wtp_dynamic_decoder.specs.Decoder.{Decoder};
ghost use Rattle.wtp_dynamic_decoder.specs.Stored.{held_bytes, head_of, decoder_bytes, most_stored, IsDecoder, IsStored, IsNone, has_fault};

use crate::decoder::QpackDecoder;
use std::alloc::{AllocError, Global};
use wtp_dynamic::error::EncoderStreamError;
pub use wtp_dynamic::stored::{put_word, take_word};
use wtp_dynamic::stored::{Head, put_entries, take_table};
use wtp_dynamic::stream::EncoderStream;

// Returns the number of the error at which the encoder stream ended, or 0.
fn number_of(fault: Option<EncoderStreamError>) -> u64
    ensures { has_fault result fault }
{
    match fault {
        None => 0,
        Some(EncoderStreamError::IntegerOverflow) => 1,
        Some(EncoderStreamError::InstructionTooLong) => 2,
        Some(EncoderStreamError::InvalidString) => 3,
        Some(EncoderStreamError::IndexNotFound) => 4,
        Some(EncoderStreamError::CapacityAboveLimit) => 5,
        Some(EncoderStreamError::EntryTooLarge) => 6,
        Some(EncoderStreamError::EntryNotFound) => 7,
        Some(EncoderStreamError::TooManyInsertions) => 8,
        Some(EncoderStreamError::Memory) => 9,
    }
}

// Returns the error of this number, if there is one.
fn fault_at(number: u64) -> Option<EncoderStreamError>
    requires { number ≤ 9 }
    ensures { has_fault number result }
{
    match number {
        1 => Some(EncoderStreamError::IntegerOverflow),
        2 => Some(EncoderStreamError::InstructionTooLong),
        3 => Some(EncoderStreamError::InvalidString),
        4 => Some(EncoderStreamError::IndexNotFound),
        5 => Some(EncoderStreamError::CapacityAboveLimit),
        6 => Some(EncoderStreamError::EntryTooLarge),
        7 => Some(EncoderStreamError::EntryNotFound),
        8 => Some(EncoderStreamError::TooManyInsertions),
        9 => Some(EncoderStreamError::Memory),
        _ => None,
    }
}

impl QpackDecoder {
    /// Returns the decoder in bytes: its numbers, what it holds of an instruction, and its entries,
    /// but neither which streams wait nor how many may: in a decoder that is made of them none does,
    /// and none may. They are at most `5 * limit + 87`, for the limit of the table's capacity.
    pub fn to_bytes(&self, alloc: Global) -> Result<Vec<u8>, AllocError>
        ensures bytes { IfOk result (λ bytes. bytes.items ≡ decoder_bytes self.now) }
        ensures size { IfOk result (λ bytes. length bytes.items < most_stored self.now.table.limit) }
        ensures is { IfOk result (λ _. self.now.waiting ≡ [] → self.now.most ≡ 0
            → IsDecoder self.now) }
    {
        let table = self.encoder.table();
        let held = self.held_part();
        let mut out = Vec::new(alloc);
        self.head().put(&mut out)?;
        out.extend_from_slice(held)?;
        put_entries(&mut out, table)?;
        Ok(out)
    }

    // Returns its numbers.
    fn head(&self) -> Head
        ensures is { result ≡ head_of self.now }
        ensures limit { self.now.table.limit < 2 ^ 60 }
        ensures capacity { self.now.table.capacity ≤ self.now.table.limit }
        ensures count { insert_count self.now.table ≤ 2 ^ 62 }
        ensures known { self.now.known ≤ insert_count self.now.table }
        ensures size { table_size self.now.table.live ≤ self.now.table.capacity }
    {
        let table = self.encoder.table();
        // The entries are no larger than the capacity.
        let _ = table.size();
        Head {
            limit: table.limit(),
            capacity: table.capacity(),
            dropped: table.dropped(),
            known: self.known,
            fault: number_of(self.fault),
            held: self.held_part().len() as u64,
            count: table.insert_count() - table.dropped(),
        }
    }

    // Returns the bytes of a cut instruction, if the encoder stream goes on.
    #[tactic(auto, using(wtp_dynamic::proofs::Streams::cut_nothing, wtp_dynamic::proofs::Streams::held_few))]
    fn held_part(&self) -> &[u8]
        ensures is { result.now ≡ held_bytes self.now.progress }
        ensures cut { IsCut self.now.table (held_bytes self.now.progress) }
        ensures few { length result.now < most_bytes self.now.table.limit }
    {
        match self.fault {
            None => self.encoder.held_bytes(),
            Some(_) => &[],
        }
    }

    /// Creates the decoder of which these bytes begin with [its bytes](Self::to_bytes). No stream
    /// waits, and none may. Returns `None` if they begin with those of no such decoder.
    pub fn from_bytes(alloc: Global, bytes: &[u8]) -> Result<Option<Self>, AllocError>
        ensures { IfOk result (λ decoder. MatchOption decoder (IsNone bytes.now)
            (λ d. IsStored d bytes.now)) }
    {
        let Some((head, rest)) = Head::take(bytes) else {
            return Ok(None);
        };
        if !head.is_valid() {
            return Ok(None);
        }
        if head.held > rest.len() as u64 {
            return Ok(None);
        }
        let (held, rest) = rest.split_at(head.held as usize);
        let table = match take_table(alloc, &head, rest) {
            Ok(Some(table)) => table,
            Ok(None) => return Ok(None),
            Err(error) => return Err(error),
        };
        match EncoderStream::resume(alloc, table, held) {
            Ok(Some(encoder)) => Ok(Some(QpackDecoder {
                alloc,
                encoder,
                fault: fault_at(head.fault),
                known: head.known,
                waiting: Vec::new(alloc),
                most: 0,
            })),
            Ok(None) => Ok(None),
            Err(error) => Err(error),
        }
    }
}

/// The bytes of a decoder are those of no other one, whatever follows them.
pub fn bytes_are_read()
    ensures { (d e : Decoder) (bytes : List ℕ) → IsStored d bytes → IsStored e bytes → d ≡ e }
{}
