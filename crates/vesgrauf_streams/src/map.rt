//! The map.
ghost use Rattle.std.specs.Prelude.{◌≡◌, ◌+◌, ◌^◌, ◌<◌, [], length, is_some, if◌then◌else◌, Some, None, IfSome, IfOk, IfErr, IfNone, OnOk, OnErr, MatchOption, option_copied};
ghost use Rattle.std.specs.Option.{option_copied_mut};
ghost use Rattle.std.specs.Borrow.{sem};
ghost use Rattle.std.specs.Ordering.{nat_cmp};
ghost use Rattle.std.specs.BTreeMap as tree;
ghost use Rattle.std.specs.BTreeMap.{is_at};
ghost use Rattle.std.specs.Map.{remove_entry};
ghost use Rattle.vesgrauf_streams.specs.Slots.{id_at};
ghost use Rattle.vesgrauf_streams.specs.Streams.{get, Updates, HasNoneFrom, IsFirstFrom, streams_len};

#[cfg(test)]
mod tests;

use crate::recent::Recent;
use crate::slots::{Slot, fill, free_slot, has, take, value_of};
use std::alloc::{AllocFailed, Global};
use std::collections::BTreeMap;
use std::marker::Model;
use std::mem::replace;

/// Returns the slot of a stream, if it is there where it was last.
#[inline(always)]
fn again<V>(slots: &[Slot<V>], recent: &Recent, id: u64) -> Option<usize>
    ensures { IfSome result (λ slot. id_at slots.now slot ≡ Some id) }
{
    match recent.slot(id) {
        Some(slot) if has(slots, slot, id) => Some(slot),
        _ => None,
    }
}

/// Returns the slot of a stream, as the index has it.
#[inline(never)]
fn indexed(index: &BTreeMap<u64, usize>, id: u64) -> Option<usize>
    ensures { result ≡ tree.get nat_cmp index.now id }
{
    index.get(&id).copied()
}

/// Returns the slot of a stream, as the index has it, and notes it.
#[inline(never)]
fn noted(index: &BTreeMap<u64, usize>, recent: &mut Recent, id: u64) -> Option<usize>
    ensures { result ≡ tree.get nat_cmp index.now id }
{
    let slot = indexed(index, id);
    if let Some(slot) = slot {
        recent.note(id, slot);
    }
    slot
}

/// Notes the slot of a stream that is new. If there are more places then, all streams are noted again.
fn note_new<V>(recent: &mut Recent, slots: &[Slot<V>], id: u64, slot: usize) {
    if recent.widen(slots.len()) {
        for (at, there) in slots.iter().enumerate() {
            if let Slot::Taken(other, _) = there {
                recent.note(*other, at);
            }
        }
    }
    recent.note(id, slot);
}

/// A map from stream IDs to values. A look-up of a stream costs the same whatever the number of streams, unless another
/// one whose ID has the same lowest bits was looked up since: then it takes a search in a tree.
///
/// It takes memory for the most streams that it had at a time, and keeps it until it is dropped: a slot for each, which
/// has room for a value, twice as many while slots are added, and 32 to 64 bytes; and a node in a tree for each stream
/// that it has. A stream that is removed leaves its slot to the next one.
#[derive(Drop)]
pub struct StreamMap<V> {
    /// The entries.
    slots: Vec<Slot<V>>,
    /// In which slot each stream is.
    index: BTreeMap<u64, usize>,
    /// In which slots streams were last found.
    recent: Recent,
    /// The slot that is filled next, if it is free then.
    free: usize,
}

// Contracts treat it as the entries.
impl<V> Model for StreamMap<V> {
    ghost use Rattle.vesgrauf_streams.specs.Streams.{Streams};
    ghost use Rattle.vesgrauf_streams.specs.Slots.{entries_in, IsIndex};

    ghost Value = { Streams V };

    ghost view = { λ m. record { entries = entries_in m.slots.items } };

    ghost invariant = { λ m. IsIndex m.slots.items m.index };
}

impl<V> StreamMap<V> {
    ghost use Rattle.vesgrauf_streams.specs.Lends.{lends_get};

    /// Creates a map without streams. Nothing is allocated.
    pub fn new(alloc: Global) -> Self
        ensures { result.entries ≡ [] }
    {
        StreamMap {
            slots: Vec::new(alloc),
            index: BTreeMap::new(alloc),
            recent: Recent::new(alloc),
            free: 0,
        }
    }

    /// Returns the value of a stream.
    #[inline(always)]
    pub fn get(&self, id: &u64) -> Option<&V>
        ensures value { option_copied result ≡ get self.now id.now }
    {
        match again(&self.slots, &self.recent, *id) {
            Some(slot) => Some(value_of(&self.slots, slot)),
            None => match indexed(&self.index, *id) {
                Some(slot) => Some(value_of(&self.slots, slot)),
                None => None,
            },
        }
    }

    /// Lends the value of a stream.
    #[inline(always)]
    pub fn get_mut(&mut self, id: &u64) -> Option<&mut V>
        ensures* writes_back { sem 𝓛 (lends_get V.row self.entry id.now result) }
        ensures value { option_copied_mut result ≡ get self.old id.now }
    {
        match again(&self.slots, &self.recent, *id) {
            Some(slot) => Some(self.slots[slot].value_mut()),
            None => match noted(&self.index, &mut self.recent, *id) {
                Some(slot) => Some(self.slots[slot].value_mut()),
                None => None,
            },
        }
    }

    /// Gives a stream a value, and returns the one that it had.
    ///
    /// # Errors
    ///
    /// The value, if memory is refused: then it has no such stream, and nothing has changed.
    pub fn insert(&mut self, id: u64, value: V) -> Result<Option<V>, AllocFailed<V>>
    where
        V: Drop,
        // The stream has the value, what it had is returned, and each other stream keeps its own.
        ensures old { IfOk result (λ old. old ≡ get self.old id) }
        ensures updates { OnOk result (Updates self.old self.new id (Some value)) }
        ensures len { IfOk result (λ old. streams_len self.new
            ≡ streams_len self.old + (if is_some old then 0 else 1)) }

        // Only a new stream can fail.
        ensures value_returned { IfErr result (λ y. y.value ≡ value) }
        ensures absent { OnErr result (get self.old id ≡ None) }
        ensures err { OnErr result (self.new ≡ self.old) }
    {
        if let Some(old) = self.get_mut(&id) {
            return Ok(Some(replace(old, value)));
        }
        let Ok(slot) = free_slot(&mut self.slots, self.free) else {
            return Err(AllocFailed { value });
        };
        self.free = slot;
        match self.index.insert(id, slot) {
            Ok(_) => {}
            Err(_) => return Err(AllocFailed { value }),
        }
        self.free = fill(&mut self.slots, slot, id, value);
        note_new(&mut self.recent, &self.slots, id, slot);
        Ok(None)
    }

    /// Removes a stream, and returns the value that it had.
    pub fn remove(&mut self, id: &u64) -> Option<V>
        ensures value { result ≡ get self.old id.now }
        ensures updates { Updates self.old self.new id.now None }
        ensures entries { self.new.entries ≡ remove_entry (is_at (nat_cmp id.now)) self.old.entries }
        ensures unchanged { IfNone result (self.new ≡ self.old) }
        ensures len { streams_len self.new + (if is_some result then 1 else 0) ≡ streams_len self.old }
    {
        match self.index.remove(id) {
            Some(slot) => {
                let value = take(&mut self.slots, slot, self.free);
                self.free = slot;
                Some(value)
            }
            None => None,
        }
    }

    /// Returns how many streams it has.
    pub fn len(&self) -> usize
        ensures len { result ≡ streams_len self.now }
        ensures small { result < 2 ^ 63 }
    {
        self.index.len()
    }

    /// Returns the first stream whose ID is this or above it, and its value.
    pub fn next_from(&self, from: u64) -> Option<(u64, &V)>
        ensures { MatchOption result (HasNoneFrom self.now from) (λ p. IsFirstFrom self.now from p.0 p.1.now) }
    {
        match self.index.range(from..).next() {
            Some((id, slot)) => Some((*id, value_of(&self.slots, *slot))),
            None => None,
        }
    }
}
