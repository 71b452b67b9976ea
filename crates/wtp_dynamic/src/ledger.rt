//! What an encoder keeps of the sections that it sent (RFC 9204, sections 2.1 and 4.4).

ghost use Rattle.std.specs.Prelude.{◌≡◌, ℕ, List, [], ◌∷◌, ◌++◌, length, take, drop, slice_get, slice_index_or, ◌+◌, ◌<◌, ◌≤◌, ◌==◌, max, Some, None, IfSome, IfNone, MatchOption, MatchResult, nat_le, ◌&&◌};
ghost use Rattle.std.specs.List.{remove};
ghost use Rattle.wtp_dynamic.specs.EncoderState.{taken, without, unsent, all_above, increment_fault, may_wait, waiting_streams, may_block};
ghost use Rattle.wtp_dynamic.specs.declared.ledger.Sent.{Sent};

use crate::error::DecoderStreamError;
use std::alloc::{AllocError, Global};
use std::collections::VecDeque;
use std::marker::Model;

/// A section that is not acknowledged. Entries are evicted from the lowest on, so no other index
/// has to be known.
#[derive(Clone, Copy)]
pub struct Sent {
    /// Its stream.
    pub stream: u64,
    /// Its Required Insert Count.
    pub required: u64,
    /// The lowest absolute index to which it refers.
    pub lowest: u64,
}

/// The Known Received Count, and the sections that are not acknowledged, the oldest first.
#[derive(Drop)]
pub struct Ledger {
    known: u64,
    sections: VecDeque<Sent>,
}

// Contracts treat the ledger as the count and the sections.
impl Model for Ledger {
    ghost use Rattle.std.specs.Prelude.{ℕ, List};
    ghost use Rattle.wtp_dynamic.specs.declared.ledger.Sent.{Sent};

    ghost Value = { ℕ × List Sent };

    ghost view = { λ ledger. (ledger.known, ledger.sections.items) };
}

/// Returns the place of the first section of a stream.
fn place_of(sections: &VecDeque<Sent>, stream: u64) -> Option<usize>
    ensures found { let sent = sections.now.items in IfSome result (λ i. (i < length sent)
        × (taken stream sent ≡ Some (slice_index_or sent i (unsent stream), remove sent i))) }
    ensures none { IfNone result (taken stream sections.now.items ≡ None) }
{
    for i in 0..sections.len() {
        if sections[i].stream == stream {
            return Some(i);
        }
    }
    None
}

/// Takes the first section of a stream.
fn take_section(sections: &mut VecDeque<Sent>, stream: u64) -> Option<Sent>
    ensures { MatchOption result
        ((taken stream sections.old.items ≡ None) × (sections.new ≡ sections.old))
        (λ sent. taken stream sections.old.items ≡ Some (sent, sections.new.items)) }
{
    match place_of(sections, stream) {
        Some(i) => sections.remove(i),
        None => None,
    }
}

/// Returns whether no section refers to an entry below a place.
fn are_above(sections: &VecDeque<Sent>, place: u64) -> bool
    ensures { result ≡ all_above place sections.now.items }
{
    for i in 0..sections.len() {
        if sections[i].lowest < place {
            return false;
        }
    }
    true
}

/// Returns whether a section from a place on may block a stream.
fn waits(sections: &VecDeque<Sent>, from: usize, known: u64, stream: u64) -> bool
    requires { from ≤ length sections.now.items }
    ensures { result ≡ may_wait known stream (drop from sections.now.items) }
{
    for i in from..sections.len() {
        if sections[i].required > known && sections[i].stream == stream {
            return true;
        }
    }
    false
}

/// Returns how many streams may be blocked.
fn count_waiting(sections: &VecDeque<Sent>, known: u64) -> usize
    ensures { result ≡ length (waiting_streams known sections.now.items) }
{
    let mut count = 0;
    for i in 0..sections.len() {
        let sent = sections[i];
        if sent.required > known && !waits(sections, i + 1, known, sent.stream) {
            count += 1;
        }
    }
    count
}

/// Keeps the sections of other streams.
fn keep_others(sections: &mut VecDeque<Sent>, stream: u64)
    ensures { sections.new.items ≡ without stream sections.old.items }
{
    sections.retain(|sent| sent.stream != stream);
}

impl Ledger {
    /// Creates a ledger of no section, with a Known Received Count of 0. Nothing is allocated.
    pub fn new(alloc: Global) -> Self
        ensures { result ≡ (0, []) }
    {
        Ledger {
            known: 0,
            sections: VecDeque::new(alloc),
        }
    }

    /// Creates a ledger of no section with this Known Received Count: the beginning of one whose parts
    /// were stored, to which [`open`](Ledger::open) adds the sections. Nothing is allocated.
    pub fn without_sections(alloc: Global, known: u64) -> Self
        ensures { result ≡ (known, []) }
    {
        Ledger {
            known,
            sections: VecDeque::new(alloc),
        }
    }

    /// Returns the Known Received Count: how many entries the decoder is known to have received
    /// (section 2.1.4).
    pub fn known(&self) -> u64
        ensures { result ≡ self.now.0 }
    {
        self.known
    }

    /// Returns how many sections are not acknowledged.
    pub fn len(&self) -> usize
        ensures { result ≡ length self.now.1 }
    {
        self.sections.len()
    }

    /// Returns the section at a place among those that are not acknowledged, the oldest first.
    pub fn get(&self, place: usize) -> Option<Sent>
        ensures { result ≡ slice_get self.now.1 place }
    {
        match self.sections.get(place) {
            Some(sent) => Some(*sent),
            None => None,
        }
    }

    /// Returns how many streams may be blocked by the sections that are not acknowledged (section
    /// 2.1.2).
    pub fn waiting(&self) -> usize
        ensures { result ≡ length (waiting_streams self.now.0 self.now.1) }
    {
        count_waiting(&self.sections, self.known)
    }

    /// Returns whether one more section of a stream may need more insertions than are known to be
    /// received, where the decoder lets `most` streams wait (section 2.1.2): a section of this
    /// stream already may, or sections of fewer streams than `most` may.
    pub fn may_block(&self, stream: u64, most: u64) -> bool
        ensures { result ≡ may_block most stream self.now }
    {
        waits(&self.sections, 0, self.known, stream)
            || (count_waiting(&self.sections, self.known) as u64) < most
    }

    /// A section was sent that refers to the dynamic table: it is the latest that is not
    /// acknowledged.
    ///
    /// Returns [`AllocError`] if allocation failed; nothing has changed then.
    pub fn open(&mut self, sent: Sent) -> Result<(), AllocError>
        ensures { MatchResult result
            (λ _. self.new ≡ (self.old.0, self.old.1 ++ sent ∷ []))
            (λ _. self.new ≡ self.old) }
    {
        self.sections.push_back(sent)?;
        Ok(())
    }

    /// The latest sections were not sent after all: only the oldest `len` are kept. Nothing changes
    /// if there are no more.
    pub fn truncate(&mut self, len: usize)
        ensures { self.new ≡ (self.old.0, take len self.old.1) }
    {
        self.sections.truncate(len);
    }

    /// A stream was cancelled: none of its sections will be acknowledged (section 4.4.2).
    pub fn cancel(&mut self, stream: u64)
        ensures { self.new ≡ (self.old.0, without stream self.old.1) }
    {
        keep_others(&mut self.sections, stream);
    }

    /// Returns whether all entries below a place may be evicted.
    pub fn may_evict(&self, place: u64) -> bool
        ensures { result ≡ (nat_le place self.now.0 && all_above place self.now.1) }
    {
        place <= self.known && are_above(&self.sections, place)
    }

    /// A section of a stream was acknowledged: the oldest one. An error changes nothing.
    pub fn acknowledge(&mut self, stream: u64) -> Result<(), DecoderStreamError>
        ensures { MatchResult result
            (λ _. (x : Sent × List Sent) × (taken stream self.old.1 ≡ Some x)
            × (self.new ≡ (max self.old.0 x.0.required, x.1)))
            (λ e. (e ≡ DecoderStreamError.UnknownSection) × (taken stream self.old.1 ≡ None)
            × (self.new ≡ self.old)) }
    {
        match take_section(&mut self.sections, stream) {
            Some(sent) => {
                self.known = self.known.max(sent.required);
                Ok(())
            }
            None => Err(DecoderStreamError::UnknownSection),
        }
    }

    /// So many more of the entries that were inserted were received. An error changes nothing.
    pub fn increment(&mut self, count: u64, inserted: u64) -> Result<(), DecoderStreamError>
        ensures { MatchResult result
            (λ _. (0 < count) × (self.old.0 + count ≤ inserted)
            × (self.new ≡ (self.old.0 + count, self.old.1)))
            (λ e. (self.new ≡ self.old) × increment_fault e count self.old.0 inserted) }
    {
        if count == 0 {
            return Err(DecoderStreamError::ZeroIncrement);
        }
        match self.known.checked_add(count) {
            Some(known) => {
                if known > inserted {
                    return Err(DecoderStreamError::IncrementTooLarge);
                }
                self.known = known;
                Ok(())
            }
            None => Err(DecoderStreamError::IncrementTooLarge),
        }
    }
}
