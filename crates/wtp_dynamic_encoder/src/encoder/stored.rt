//! An encoder in bytes of a fixed layout, as a caller in C keeps it between two calls.

ghost use Rattle.std.specs.Prelude.{◌≡◌, ℕ, ◌+◌, ◌^◌, ◌<◌, ◌≤◌, List, ◌++◌, length, Option, IfOk, OnOk, MatchBool, MatchOption};
ghost use Rattle.wtp_dynamic.specs.declared.error.DecoderStreamError.{DecoderStreamError};
ghost use Rattle.wtp_dynamic.specs.declared.ledger.Sent.{Sent};
ghost use Rattle.wtp_dynamic.specs.Table.{insert_count, table_size};
ghost use Rattle.wtp_dynamic.specs.Stored.{IsHead};
ghost use Rattle.wtp_dynamic.specs.EncoderState.{Owes, FewWait};
ghost use Rattle.wtp_dynamic_encoder.specs.Acknowledging.{most_bytes, IsCut};
ghost use Rattle.wtp_dynamic_encoder.specs.Encoding.{State, encoder_of};
ghost use Rattle.wtp_dynamic_encoder.specs.Stored.{section_bytes, sections_bytes, bounds_bytes, held_bytes, head_of, bounds_of, encoder_bytes, most_stored, made_of, has_fault, AreStreams, IsWideSent, AreWithin, IsEncoder, IsStored, IsNone, IsWideBounds, HasFront, HasLedger, IsNoLedger};

use crate::decoder_stream::DecoderStream;
use crate::encoder::QpackEncoder;
use crate::indexed::IndexedTable;
use crate::proposal::Policy;
use std::alloc::{AllocError, Global};
use wtp_dynamic::error::DecoderStreamError;
use wtp_dynamic::ledger::{Ledger, Sent};
use wtp_dynamic::stored::{Head, put_entries, put_word, take_table, take_word};

/// The words after those of the table.
#[derive(Clone, Copy)]
pub(crate) struct Bounds {
    /// How many streams may be blocked.
    most: u64,
    /// The size of the largest entry that the policy inserts.
    largest: u64,
    /// How many bytes of the table the policy keeps available.
    reserved: u64,
    /// How many sections may be unacknowledged by the policy.
    unacknowledged: u64,
    /// How many are.
    sections: u64,
}

impl Bounds {
    // Appends the words.
    fn put(&self, out: &mut Vec<u8>) -> Result<(), AllocError>
        ensures { OnOk result (out.new.items ≡ out.old.items ++ bounds_bytes self.now) }
    {
        put_word(out, self.most)?;
        put_word(out, self.largest)?;
        put_word(out, self.reserved)?;
        put_word(out, self.unacknowledged)?;
        put_word(out, self.sections)?;
        Ok(())
    }

    // Takes the words at the start of bytes.
    fn take(bytes: &[u8]) -> Option<(Self, &[u8])>
        ensures { MatchOption result (length bytes.now < 40)
            (λ x. (bytes.now ≡ bounds_bytes x.0 ++ x.1.now) × IsWideBounds x.0) }
    {
        let (most, rest) = take_word(bytes)?;
        let (largest, rest) = take_word(rest)?;
        let (reserved, rest) = take_word(rest)?;
        let (unacknowledged, rest) = take_word(rest)?;
        let (sections, rest) = take_word(rest)?;
        let bounds = Bounds {
            most,
            largest,
            reserved,
            unacknowledged,
            sections,
        };
        Some((bounds, rest))
    }
}

// Returns its argument. The contract says that its numbers fit words.
fn words(bounds: Bounds) -> Bounds
    ensures same { result ≡ bounds }
    ensures wide { IsWideBounds bounds }
{
    bounds
}

// Returns the number of the error at which the decoder stream ended, or 0.
fn number_of(fault: Option<DecoderStreamError>) -> u64
    ensures { has_fault result fault }
{
    match fault {
        None => 0,
        Some(DecoderStreamError::IntegerOverflow) => 1,
        Some(DecoderStreamError::UnknownSection) => 2,
        Some(DecoderStreamError::ZeroIncrement) => 3,
        Some(DecoderStreamError::IncrementTooLarge) => 4,
        Some(DecoderStreamError::Memory) => 5,
    }
}

// Returns the error of this number, if there is one.
fn fault_at(number: u64) -> Option<DecoderStreamError>
    requires { number ≤ 5 }
    ensures { has_fault number result }
{
    match number {
        1 => Some(DecoderStreamError::IntegerOverflow),
        2 => Some(DecoderStreamError::UnknownSection),
        3 => Some(DecoderStreamError::ZeroIncrement),
        4 => Some(DecoderStreamError::IncrementTooLarge),
        5 => Some(DecoderStreamError::Memory),
        _ => None,
    }
}

// Appends a section.
fn put_section(out: &mut Vec<u8>, sent: Sent) -> Result<(), AllocError>
    ensures bytes { OnOk result (out.new.items ≡ out.old.items ++ section_bytes sent) }
    ensures stream { sent.stream < 2 ^ 64 }
{
    put_word(out, sent.stream)?;
    put_word(out, sent.required)?;
    put_word(out, sent.lowest)
}

// Appends the sections that are not acknowledged.
fn put_sections(out: &mut Vec<u8>, ledger: &Ledger) -> Result<(), AllocError>
    ensures bytes { OnOk result (out.new.items ≡ out.old.items ++ sections_bytes ledger.now.1) }
    ensures streams { OnOk result (AreStreams ledger.now.1) }
{
    for place in 0..ledger.len() {
        if let Some(sent) = ledger.get(place) {
            put_section(out, sent)?;
        }
    }
    Ok(())
}

// Takes the section at the start of bytes.
fn take_section(bytes: &[u8]) -> Option<(Sent, &[u8])>
    ensures { MatchOption result (length bytes.now < 24)
        (λ x. (bytes.now ≡ section_bytes x.0 ++ x.1.now) × IsWideSent x.0) }
{
    let (stream, rest) = take_word(bytes)?;
    let (required, rest) = take_word(rest)?;
    let (lowest, rest) = take_word(rest)?;
    let sent = Sent {
        stream,
        required,
        lowest,
    };
    Some((sent, rest))
}

// Returns whether a section refers to entries from a place on, and below a count.
fn is_within(sent: Sent, place: u64, count: u64) -> bool
    ensures { MatchBool result (AreWithin place count sent) (¬ (AreWithin place count sent)) }
{
    place <= sent.lowest && sent.lowest < sent.required && sent.required <= count
}

// Takes the sections at the start of bytes, and makes a ledger of them.
fn take_ledger<'a>(
    alloc: Global,
    head: &Head,
    sections: u64,
    bytes: &'a [u8],
) -> Result<Option<(Ledger, &'a [u8])>, AllocError>
    requires { IsHead head.now }
    ensures { IfOk result (λ ledger. MatchOption ledger (IsNoLedger head.now sections bytes.now)
        (λ x. HasLedger head.now sections bytes.now x.0 x.1.now)) }
{
    let mut ledger = Ledger::without_sections(alloc, head.known);
    let mut rest = bytes;
    let mut count = 0;
    while count < sections {
        let Some((sent, behind)) = take_section(rest) else {
            return Ok(None);
        };
        if !is_within(sent, head.dropped, head.dropped + head.count) {
            return Ok(None);
        }
        ledger.open(sent)?;
        rest = behind;
        count += 1;
    }
    Ok(Some((ledger, rest)))
}

/// The numbers at the start of bytes, what is held, and the bytes after it.
#[derive(Clone, Copy)]
struct Front<'a> {
    head: Head,
    bounds: Bounds,
    held: &'a [u8],
    rest: &'a [u8],
}

// Takes the numbers at the start of bytes, and what is held.
fn take_front(bytes: &[u8]) -> Option<Front<'_>>
    ensures { MatchOption result (IsNone bytes.now)
        (λ front. HasFront bytes.now front.head front.bounds front.held.now front.rest.now) }
{
    let Some((head, rest)) = Head::take(bytes) else {
        return None;
    };
    if !head.is_valid() {
        return None;
    }
    if head.dropped > head.known {
        return None;
    }
    if head.fault > 5 {
        return None;
    }
    let Some((bounds, rest)) = Bounds::take(rest) else {
        return None;
    };
    if head.held > rest.len() as u64 {
        return None;
    }
    let (held, rest) = rest.split_at(head.held as usize);
    Some(Front {
        head,
        bounds,
        held,
        rest,
    })
}

// Makes an encoder of its parts.
fn with_parts(
    alloc: Global,
    fault: u64,
    bounds: Bounds,
    table: IndexedTable,
    ledger: Ledger,
    decoder: DecoderStream,
) -> QpackEncoder
    requires fault { fault ≤ 5 }
    requires owes { Owes (encoder_of table ledger) }
    requires few { FewWait bounds.most ledger.0 ledger.1 }
    ensures { (f : Option DecoderStreamError) × has_fault fault f
        × (result ≡ made_of bounds table ledger f decoder) }
{
    QpackEncoder {
        alloc,
        table,
        ledger,
        decoder,
        fault: fault_at(fault),
        most: bounds.most,
        policy: Policy {
            largest: bounds.largest,
            reserved: bounds.reserved,
            unacknowledged: bounds.unacknowledged,
        },
        keys: Vec::new(alloc),
        room: Vec::new(alloc),
    }
}

impl QpackEncoder {
    /// Returns the encoder in bytes: its numbers, what it holds of an instruction, the sections that are
    /// not acknowledged, and its entries. They are at most `capacity + 24 * sections + 106`, for the
    /// table's capacity and [`unacknowledged`](Self::unacknowledged) sections.
    pub fn to_bytes(&self, alloc: Global) -> Result<Vec<u8>, AllocError>
        ensures bytes { IfOk result (λ bytes. bytes.items ≡ encoder_bytes self.now) }
        ensures size { IfOk result (λ bytes. length bytes.items
            < most_stored self.now.table.capacity (length self.now.ledger.1)) }
        ensures is { IfOk result (λ _. IsEncoder self.now) }
    {
        let held = self.held_part();
        let table = self.table.table();
        let mut out = Vec::new(alloc);
        self.head().put(&mut out)?;
        self.bounds().put(&mut out)?;
        out.extend_from_slice(held)?;
        put_sections(&mut out, &self.ledger)?;
        put_entries(&mut out, table)?;
        Ok(out)
    }

    // Returns the numbers of its table and of its streams.
    fn head(&self) -> Head
        ensures is { result ≡ head_of self.now }
        ensures limit { self.now.table.limit < 2 ^ 60 }
        ensures capacity { self.now.table.capacity ≤ self.now.table.limit }
        ensures count { insert_count self.now.table ≤ 2 ^ 62 }
        ensures size { table_size self.now.table.live ≤ self.now.table.capacity }
        ensures owes { Owes (encoder_of self.now.table self.now.ledger) }
        ensures few { FewWait self.now.most self.now.ledger.0 self.now.ledger.1 }
    {
        let table = self.table.table();
        // The entries are no larger than the capacity.
        let _ = table.size();
        Head {
            limit: table.limit(),
            capacity: table.capacity(),
            dropped: table.dropped(),
            known: self.ledger.known(),
            fault: number_of(self.fault),
            held: self.held_part().len() as u64,
            count: table.insert_count() - table.dropped(),
        }
    }

    // Returns its other numbers.
    fn bounds(&self) -> Bounds
        ensures is { result ≡ bounds_of self.now }
        ensures wide { IsWideBounds (bounds_of self.now) }
    {
        words(Bounds {
            most: self.most,
            largest: self.policy.largest,
            reserved: self.policy.reserved,
            unacknowledged: self.policy.unacknowledged,
            sections: self.ledger.len() as u64,
        })
    }

    // Returns the bytes of a cut instruction, if the decoder stream goes on.
    #[tactic(auto, using(crate::proofs::Acknowledged::cut_nothing, crate::proofs::Acknowledged::held_few))]
    fn held_part(&self) -> &[u8]
        ensures is { result.now ≡ held_bytes self.now.progress }
        ensures cut { IsCut (held_bytes self.now.progress) }
        ensures few { length result.now < most_bytes }
    {
        match self.fault {
            None => self.decoder.held_bytes(),
            Some(_) => &[],
        }
    }

    /// Creates the encoder of which these bytes begin with [its bytes](Self::to_bytes). Returns `None` if
    /// they begin with those of no encoder.
    pub fn from_bytes(alloc: Global, bytes: &[u8]) -> Result<Option<Self>, AllocError>
        ensures { IfOk result (λ encoder. MatchOption encoder (IsNone bytes.now)
            (λ e. IsStored e bytes.now)) }
    {
        let Some(front) = take_front(bytes) else {
            return Ok(None);
        };
        let (ledger, rest) = match take_ledger(
            alloc,
            &front.head,
            front.bounds.sections,
            front.rest,
        ) {
            Ok(Some(found)) => found,
            Ok(None) => return Ok(None),
            Err(error) => return Err(error),
        };
        if ledger.waiting() as u64 > front.bounds.most {
            return Ok(None);
        }
        let table = match take_table(alloc, &front.head, rest) {
            Ok(Some(table)) => table,
            Ok(None) => return Ok(None),
            Err(error) => return Err(error),
        };
        let decoder = match DecoderStream::resume(alloc, front.held) {
            Ok(Some(decoder)) => decoder,
            Ok(None) => return Ok(None),
            Err(error) => return Err(error),
        };
        let table = IndexedTable::of(alloc, table)?;
        let fault = front.head.fault;
        Ok(Some(with_parts(alloc, fault, front.bounds, table, ledger, decoder)))
    }
}

/// The bytes of an encoder are those of no other one, whatever follows them.
pub fn bytes_are_read()
    ensures { (d e : State) (bytes : List ℕ) → IsStored d bytes → IsStored e bytes → d ≡ e }
{}
