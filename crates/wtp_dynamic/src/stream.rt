//! The encoder stream, read from pieces that are cut anywhere (RFC 9204, section 4.3).

ghost use Rattle.std.specs.Prelude.{◌≡◌, ◌≢◌, ℕ, List, [], ◌++◌, ◌^◌, ◌≤◌, ◌<◌, ◌&&◌, ◌||◌, IsTrue, length, take, drop, OnOk, IfOk, Ok, Err, MatchResult, MatchOption, false};
ghost use Rattle.std.specs.List.{flat_map};
ghost use Rattle.std.specs.Vec.{vec_len};
ghost use Rattle.wtp_dynamic.specs.declared.error.EncoderStreamError.TheVariants.{Memory};
ghost use Rattle.wtp_dynamic.specs.Table.{empty_table};
ghost use Rattle.wtp_dynamic.specs.InstructionView.{coded, instruction};
ghost use Rattle.wtp_dynamic.specs.Instruction.{InsertNamed, InsertLiteral, Duplicate};
ghost use Rattle.wtp_dynamic.specs.Steps.{text_of, referred, step, Steps, Makes, is_decoded, MakesEntry, NeedsMemory as InstructionNeeds};
ghost use Rattle.wtp_dynamic.specs.FrontView.{front_seen};
ghost use Rattle.wtp_dynamic.specs.Front.{most_bytes};
ghost use Rattle.wtp_dynamic.specs.Stream.{first_of, reading_fault, IsCut, StreamRead, Lacks, PieceLacks};

use crate::error::EncoderStreamError;
use crate::front::{self, Front};
use crate::instruction::{Coded, Instruction};
use crate::table::{DynamicTable, Entry};
use std::alloc::{AllocError, Global};
use std::marker::Model;
use std::mem::replace;
use wtp_huffman::huffman::{self, HuffmanError};
use wtp_qpack::parts::static_entry;
use wtp_qpack::qpack::DecodingError;

/// Appends the text of a string.
fn append_text(texts: &mut Vec<u8>, string: Coded<'_>) -> Result<(), EncoderStreamError>
    ensures text { Makes (λ _. drop (length texts.old.items) texts.new.items) result
        (text_of (coded string.entry)) }
    ensures front { OnOk result (take (length texts.old.items) texts.new.items ≡ texts.old.items) }
    ensures len { OnOk result (vec_len texts.old ≤ vec_len texts.new) }
{
    if !string.is_huffman {
        texts.extend_from_slice(string.bytes)?;
        return Ok(());
    }
    match huffman::append_decoded(texts, string.bytes) {
        Ok(_) => Ok(()),
        Err(HuffmanError::Invalid) => Err(EncoderStreamError::InvalidString),
        Err(HuffmanError::Memory) => Err(EncoderStreamError::Memory),
    }
}

/// Returns whether one of two strings has to be decoded.
fn has_text(name: Coded<'_>, value: Coded<'_>) -> bool
    ensures { result ≡ (is_decoded (coded name.entry) || is_decoded (coded value.entry)) }
{
    (name.is_huffman && !name.bytes.is_empty()) || (value.is_huffman && !value.bytes.is_empty())
}

/// Makes an entry of the texts of a name and a value. If none has to be decoded, the entry is
/// checked first, and memory is allocated only for one that may be inserted.
fn spell_entry(
    alloc: Global,
    table: &DynamicTable,
    name: Coded<'_>,
    value: Coded<'_>,
) -> Result<Entry, EncoderStreamError>
    ensures { MakesEntry (λ entry. entry) (InsertLiteral (coded name.entry) (coded value.entry))
        table.now result }
{
    if !has_text(name, value) {
        return match table.admits(name.bytes.len() + value.bytes.len()) {
            Ok(()) => Ok(Entry::new(alloc, name.bytes, value.bytes)?),
            Err(fault) => Err(fault),
        };
    }
    let mut texts = Vec::new(alloc);
    append_text(&mut texts, name)?;
    let middle = texts.len();
    append_text(&mut texts, value)?;
    Ok(Entry::from_parts(texts, middle))
}

/// A text as it is.
fn plain(bytes: &[u8]) -> Coded<'_>
    ensures { coded result ≡ (false, bytes.now) }
{
    Coded {
        is_huffman: false,
        bytes,
    }
}

/// Finds an entry of the static table, or the latest of the dynamic table at 0.
fn find<'a>(
    table: &'a DynamicTable,
    is_static: bool,
    index: u64,
) -> Result<(&'a [u8], &'a [u8]), EncoderStreamError>
    ensures { MatchResult result (λ e. referred is_static index table.now ≡ Ok (e.0.now, e.1.now))
        (λ e. (e ≢ Memory) × (referred is_static index table.now ≡ Err e)) }
{
    if is_static {
        match static_entry(index) {
            Some((name, value)) => Ok((name.as_bytes(), value.as_bytes())),
            None => Err(EncoderStreamError::IndexNotFound),
        }
    } else {
        match table.get_relative(table.insert_count(), index) {
            Some(entry) => Ok(entry),
            None => Err(EncoderStreamError::EntryNotFound),
        }
    }
}

/// Makes an entry with the name of another, and the text of a value.
fn refer_entry(
    alloc: Global,
    table: &DynamicTable,
    is_static: bool,
    index: u64,
    value: Coded<'_>,
) -> Result<Entry, EncoderStreamError>
    ensures { MakesEntry (λ entry. entry) (InsertNamed is_static index (coded value.entry))
        table.now result }
{
    match find(table, is_static, index) {
        Ok((name, _)) => spell_entry(alloc, table, plain(name), value),
        Err(fault) => Err(fault),
    }
}

/// Copies an entry.
fn copy_entry(alloc: Global, table: &DynamicTable, index: u64) -> Result<Entry, EncoderStreamError>
    ensures { MakesEntry (λ entry. entry) (Duplicate index) table.now result }
{
    match find(table, false, index) {
        Ok((name, value)) => spell_entry(alloc, table, plain(name), plain(value)),
        Err(fault) => Err(fault),
    }
}

/// Does an instruction to the table. An error changes nothing.
fn apply(
    alloc: Global,
    table: &mut DynamicTable,
    next: Instruction<'_>,
) -> Result<(), EncoderStreamError>
    ensures step { Steps (step (instruction next.entry) table.old) table.old table.new result }
    ensures memory { result ≡ Err Memory → InstructionNeeds (instruction next.entry) table.old }
{
    let entry = match next {
        Instruction::SetCapacity(capacity) => return table.set_capacity(capacity),
        Instruction::InsertNamed(is_static, index, value) => {
            refer_entry(alloc, table, is_static, index, value)
        }
        Instruction::InsertLiteral(name, value) => spell_entry(alloc, table, name, value),
        Instruction::Duplicate(index) => copy_entry(alloc, table, index),
    };
    match entry {
        Ok(entry) => table.insert(entry),
        Err(fault) => Err(fault),
    }
}

/// Returns the fault of the bytes of an instruction.
fn reading_fault(fault: DecodingError) -> EncoderStreamError
    ensures { result ≡ reading_fault fault }
{
    match fault {
        DecodingError::IntegerOverflow => EncoderStreamError::IntegerOverflow,
        _ => EncoderStreamError::InvalidString,
    }
}

/// Reads the first instruction.
fn first_of<'a>(table: &DynamicTable, bytes: &'a [u8]) -> Front<'a>
    ensures { first_of table.now bytes.now ≡ front_seen result }
{
    front::read(4 * table.limit() as usize + 32, bytes)
}

/// Does the instructions at the start of bytes, and returns the bytes of one that is cut.
fn read_instructions<'a>(
    alloc: Global,
    table: &mut DynamicTable,
    bytes: &'a [u8],
) -> Result<&'a [u8], EncoderStreamError>
    ensures read { StreamRead (λ rest. rest.now) table.old bytes.now table.new result }
    ensures memory { result ≡ Err Memory → Lacks table.old bytes.now table.new }
{
    let mut rest = bytes;
    'instructions: loop {
        match first_of(table, rest) {
            Front::Whole(next, behind) => match apply(alloc, table, next) {
                Ok(()) => rest = behind,
                Err(fault) => return Err(fault),
            },
            Front::Cut => return Ok(rest),
            Front::TooLong => return Err(EncoderStreamError::InstructionTooLong),
            Front::Faulty(fault) => return Err(reading_fault(fault)),
        }
    }
}

/// The decoder's end of an encoder stream: the table that the instructions make, and the bytes of
/// an instruction that is cut.
#[derive(Drop)]
pub struct EncoderStream {
    table: DynamicTable,
    held: Vec<u8>,
}

// Contracts treat the stream's end as its table and the bytes that it holds, which are cut.
impl Model for EncoderStream {
    ghost use Rattle.std.specs.Prelude.{ℕ, List};
    ghost use Rattle.wtp_dynamic.specs.Table.{Table};
    ghost use Rattle.wtp_dynamic.specs.Stream.{IsCut};

    ghost Value = { Table × List ℕ };

    ghost view = { λ stream. (stream.table, stream.held.items) };

    ghost invariant = { λ stream. IsCut stream.table stream.held.items };
}

impl EncoderStream {
    /// Creates the end of a stream, with an empty table of at most `limit` bytes.
    #[tactic(auto, using(crate::proofs::Streams::cut_nothing))]
    pub fn new(alloc: Global, limit: u64) -> Self
        requires { limit < 2 ^ 60 }
        ensures { result ≡ (empty_table limit, []) }
    {
        EncoderStream {
            table: DynamicTable::new(alloc, limit),
            held: Vec::new(alloc),
        }
    }

    /// Creates the end of a stream that led to this table, and of which these bytes of a cut
    /// instruction are held. Returns `None` if the bytes are not the beginning of an instruction, or
    /// are a whole one.
    pub fn resume(
        alloc: Global,
        table: DynamicTable,
        held: &[u8],
    ) -> Result<Option<Self>, AllocError>
        ensures { IfOk result (λ resumed. MatchOption resumed (¬ (IsCut table held.now))
            (λ stream. (stream ≡ (table, held.now)) × IsCut table held.now)) }
    {
        let mut bytes = Vec::new(alloc);
        bytes.extend_from_slice(held)?;
        if let Front::Cut = first_of(&table, held) {
            Ok(Some(EncoderStream { table, held: bytes }))
        } else {
            Ok(None)
        }
    }

    /// Returns the bytes of a cut instruction that are held.
    pub fn held_bytes(&self) -> &[u8]
        ensures is { result.now ≡ self.now.1 }
        ensures cut { IsCut self.now.0 result.now }
    {
        self.held.as_slice()
    }

    /// Returns how many bytes of a cut instruction are held.
    #[tactic(auto, using(crate::proofs::Streams::held_few))]
    pub fn held(&self) -> usize
        ensures count { result ≡ length self.now.1 }
        ensures few { result < most_bytes self.now.0.limit }
    {
        self.held.len()
    }

    /// Returns the table.
    pub fn table(&self) -> &DynamicTable
        ensures { result.now ≡ self.now.0 }
    {
        &self.table
    }

    /// Reads the next piece of the stream: does the instructions that are now complete.
    ///
    /// Returns the fault of the stream, if it has one. Returns [`EncoderStreamError::Memory`] only if
    /// allocation failed for Huffman text, for an entry that may be inserted, for the bytes of a cut
    /// instruction, or to join the piece to such bytes: no other instruction at fault needs memory. The
    /// stream cannot be read on after an error.
    #[tactic(auto, using(crate::proofs::Streams::cut_nothing, crate::proofs::Needs::keeps_rest))]
    pub fn read(&mut self, alloc: Global, piece: &[u8]) -> Result<(), EncoderStreamError>
        ensures read { StreamRead (λ _. self.new.1) self.old.0 (self.old.1 ++ piece.now) self.new.0
            result }
        ensures memory { result ≡ Err Memory
            → PieceLacks self.old.0 self.old.1 piece.now self.new.0 }
    {
        if !self.held.is_empty() {
            return self.read_on(alloc, piece);
        }
        self.held.clear();
        let rest = read_instructions(alloc, &mut self.table, piece)?;
        self.held.extend_from_slice(rest)?;
        Ok(())
    }

    /// The same after a piece that cut an instruction.
    #[tactic(auto, using(crate::proofs::Streams::cut_nothing, crate::proofs::Streams::stands_at_start, crate::proofs::Needs::keeps_rest))]
    fn read_on(&mut self, alloc: Global, piece: &[u8]) -> Result<(), EncoderStreamError>
        requires { 0 < length self.old.1 }
        ensures read { StreamRead (λ _. self.new.1) self.old.0 (self.old.1 ++ piece.now) self.new.0
            result }
        ensures memory { result ≡ Err Memory
            → PieceLacks self.old.0 self.old.1 piece.now self.new.0 }
    {
        // The bytes that are held are cut.
        let _ = &self.held;
        if piece.is_empty() {
            return Ok(());
        }
        self.held.extend_from_slice(piece)?;
        let joined = replace(&mut self.held, Vec::new(alloc));
        let rest = read_instructions(alloc, &mut self.table, joined.as_slice())?;
        self.held.extend_from_slice(rest)?;
        Ok(())
    }

    /// Reads pieces of the stream, one after the other: the same as all of them at once.
    pub fn read_pieces(&mut self, alloc: Global, pieces: &[&[u8]]) -> Result<(), EncoderStreamError>
        ensures { StreamRead (λ _. self.new.1) self.old.0
            (self.old.1 ++ flat_map (λ piece. piece.now) pieces.now) self.new.0 result }
    {
        // The bytes that are held are cut.
        let _ = &self.held;
        for piece in pieces {
            match self.read(alloc, piece) {
                Ok(()) => {}
                Err(fault) => return Err(fault),
            }
        }
        Ok(())
    }
}
