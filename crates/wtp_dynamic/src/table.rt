//! The dynamic table (RFC 9204, section 3.2).

ghost use Rattle.std.specs.Prelude.{◌≡◌, ℕ, ◌+◌, ◌-◌, ◌^◌, ◌<◌, ◌≤◌, List, length, take, drop, IfOk, Ok, Err, MatchResult, option_map};
ghost use Rattle.std.specs.Vec.{vec_len};
ghost use Rattle.std.specs.VecDeque.{deque_capacity};
ghost use Rattle.wtp_qpack.specs.Field.{Field};
ghost use Rattle.wtp_dynamic.specs.declared.error.EncoderStreamError.TheVariants.{Memory};
ghost use Rattle.wtp_dynamic.specs.Table.{Table, entry_size, table_size, insert_count, excess, evicted, inserted, appended, empty_table, bare_table, entry_of, relative_entry, post_base_entry};
ghost use Rattle.wtp_dynamic.specs.Steps.{set_step, insert_step, Steps};

use crate::error::EncoderStreamError;
use std::alloc::{AllocError, Global};
use std::collections::VecDeque;
use std::marker::Model;

/// An entry: its name and its value, in one block of memory.
#[derive(Drop)]
pub struct Entry {
    texts: Vec<u8>,
    middle: usize,
}

// Contracts treat an entry as its name and its value.
impl Model for Entry {
    ghost use Rattle.std.specs.Prelude.{ℕ, List, ◌≤◌, take, drop};
    ghost use Rattle.std.specs.Vec.{vec_len};

    ghost Value = { List ℕ × List ℕ };

    ghost view = { λ e. (take e.middle e.texts.items, drop e.middle e.texts.items) };

    ghost invariant = { λ e. e.middle ≤ vec_len e.texts };
}

impl Entry {
    /// Copies a name and a value.
    pub fn new(alloc: Global, name: &[u8], value: &[u8]) -> Result<Self, AllocError>
        ensures { IfOk result (λ entry. entry ≡ (name.now, value.now)) }
    {
        let mut texts = Vec::with_capacity(alloc, name.len() + value.len())?;
        texts.extend_from_slice(name)?;
        texts.extend_from_slice(value)?;
        Ok(Entry {
            texts,
            middle: name.len(),
        })
    }

    /// Makes an entry of a name and, after it, a value.
    pub fn from_parts(texts: Vec<u8>, middle: usize) -> Self
        requires { middle ≤ vec_len texts }
        ensures { result ≡ (take middle texts.items, drop middle texts.items) }
    {
        Entry { texts, middle }
    }

    /// Returns the name.
    pub fn name(&self) -> &[u8]
        ensures { result.now ≡ self.now.0 }
    {
        self.texts.as_slice().split_at(self.middle).0
    }

    /// Returns the value.
    pub fn value(&self) -> &[u8]
        ensures { result.now ≡ self.now.1 }
    {
        self.texts.as_slice().split_at(self.middle).1
    }

    /// Returns the size, which counts 32 bytes beside the texts.
    pub fn size(&self) -> u64
        ensures { result ≡ entry_size self.now }
    {
        self.texts.len() as u64 + 32
    }
}

/// The dynamic table: the entries that are left, the oldest first.
#[derive(Drop)]
pub struct DynamicTable {
    entries: VecDeque<Entry>,
    dropped: u64,
    size: u64,
    capacity: u64,
    limit: u64,
}

// Contracts treat the table as its entries, how many were evicted, its capacity and its limit.
impl Model for DynamicTable {
    ghost use Rattle.std.specs.Prelude.{◌≡◌, ℕ, ◌+◌, ◌^◌, ◌<◌, ◌≤◌, length};
    ghost use Rattle.wtp_dynamic.specs.Table.{Table, table_size};

    ghost Value = { Table };

    ghost view = { λ t. record {
      live = t.entries.items;
      dropped = t.dropped;
      capacity = t.capacity;
      limit = t.limit;
    } };

    ghost invariant = { λ t. (t.size ≡ table_size t.entries.items) × (t.size ≤ t.capacity)
        × (t.capacity ≤ t.limit) × (t.limit < 2 ^ 60)
        × (t.dropped + length t.entries.items ≤ 2 ^ 62) };
}

/// Evicts the oldest entries until the others fit.
fn evict(entries: &mut VecDeque<Entry>, dropped: &mut u64, size: &mut u64, room: u64)
    requires size { size.old ≡ table_size entries.old.items }
    requires counted { dropped.old + length entries.old.items ≤ 2 ^ 62 }
    ensures entries { entries.new.items ≡ drop (excess room entries.old.items) entries.old.items }
    ensures capacity { deque_capacity entries.new ≡ deque_capacity entries.old }
    ensures dropped { dropped.new ≡ dropped.old + excess room entries.old.items }
    ensures count { dropped.new + length entries.new.items
        ≡ dropped.old + length entries.old.items }
    ensures size { size.new ≡ table_size entries.new.items }
    ensures fits { size.new ≤ room }
{
    while *size > room {
        match entries.pop_front() {
            Some(oldest) => {
                *size -= oldest.size();
                *dropped += 1;
            }
            None => return,
        }
    }
}

impl DynamicTable {
    /// Creates an empty table of capacity 0. Nothing is allocated.
    pub fn new(alloc: Global, limit: u64) -> Self
        requires { limit < 2 ^ 60 }
        ensures { result ≡ empty_table limit }
    {
        DynamicTable {
            entries: VecDeque::new(alloc),
            dropped: 0,
            size: 0,
            capacity: 0,
            limit,
        }
    }

    /// Creates a table of this capacity without entries, of which so many were evicted: the beginning
    /// of one whose parts were stored, to which [`append`](DynamicTable::append) adds the entries.
    /// Nothing is allocated.
    pub fn without_entries(alloc: Global, limit: u64, capacity: u64, dropped: u64) -> Self
        requires { (limit < 2 ^ 60) × (capacity ≤ limit) × (dropped ≤ 2 ^ 62) }
        ensures { result ≡ bare_table limit capacity dropped }
    {
        DynamicTable {
            entries: VecDeque::new(alloc),
            dropped,
            size: 0,
            capacity,
            limit,
        }
    }

    /// Appends an entry, for which there is room without an eviction.
    ///
    /// Returns [`AllocError`] if allocation failed; nothing has changed then.
    #[tactic(auto, using(crate::proofs::Tables::size_push))]
    pub fn append(&mut self, entry: Entry) -> Result<(), AllocError>
        requires fits { table_size self.old.live + entry_size entry ≤ self.old.capacity }
        requires few { insert_count self.old < 2 ^ 62 }
        ensures { MatchResult result (λ _. self.new ≡ appended entry self.old)
            (λ _. self.new ≡ self.old) }
    {
        let size = entry.size();
        self.entries.reserve(1)?;
        self.entries.push_back_reserved(entry);
        self.size += size;
        Ok(())
    }

    /// Returns how many entries have ever been inserted.
    pub fn insert_count(&self) -> u64
        ensures value { result ≡ insert_count self.now }
        ensures few { result ≤ 2 ^ 62 }
    {
        self.dropped + self.entries.len() as u64
    }

    /// Returns how many entries were evicted: the absolute index of the oldest that is left.
    pub fn dropped(&self) -> u64
        ensures value { result ≡ self.now.dropped }
        ensures few { result + length self.now.live ≤ 2 ^ 62 }
    {
        self.dropped
    }

    /// Returns the size of the entries that are left, which is at most the capacity.
    pub fn size(&self) -> u64
        ensures value { result ≡ table_size self.now.live }
        ensures fits { result ≤ self.now.capacity }
    {
        self.size
    }

    /// Returns the capacity, which is at most the limit.
    pub fn capacity(&self) -> u64
        ensures value { result ≡ self.now.capacity }
        ensures within { result ≤ self.now.limit }
    {
        self.capacity
    }

    /// Returns the limit of the capacity.
    pub fn limit(&self) -> u64
        ensures value { result ≡ self.now.limit }
        ensures few { result < 2 ^ 60 }
    {
        self.limit
    }

    /// Returns how many entries will have been evicted once those that are left have at most `room`
    /// bytes.
    #[tactic(auto, using(crate::proofs::Lookups::room_steps))]
    pub fn dropped_for(&self, room: u64) -> u64
        ensures { result ≡ (evicted room self.now).dropped }
    {
        let mut size = self.size;
        for i in 0..self.entries.len() {
            if size <= room {
                return self.dropped + i as u64;
            }
            size -= self.entries[i].size();
        }
        self.dropped + self.entries.len() as u64
    }

    /// Changes the capacity, and evicts the oldest entries that no longer fit. It needs no memory.
    pub fn set_capacity(&mut self, capacity: u64) -> Result<(), EncoderStreamError>
        ensures step { Steps (set_step capacity self.old) self.old self.new result }
        ensures memory { ¬ (result ≡ Err Memory) }
    {
        if capacity > self.limit {
            return Err(EncoderStreamError::CapacityAboveLimit);
        }
        evict(
            &mut self.entries,
            &mut self.dropped,
            &mut self.size,
            capacity,
        );
        self.capacity = capacity;
        Ok(())
    }

    /// Checks that an entry with texts of so many bytes may be inserted. It needs no memory.
    pub(crate) fn admits(&self, texts: usize) -> Result<(), EncoderStreamError>
        ensures step { (entry : Field) → length entry.0 + length entry.1 ≡ texts
            → MatchResult result (λ _. insert_step entry self.now ≡ Ok (inserted entry self.now))
            (λ e. insert_step entry self.now ≡ Err e) }
        ensures memory { ¬ (result ≡ Err Memory) }
    {
        let texts = texts as u64;
        if texts > self.capacity || texts + 32 > self.capacity {
            return Err(EncoderStreamError::EntryTooLarge);
        }
        if self.insert_count() >= 1 << 62 {
            return Err(EncoderStreamError::TooManyInsertions);
        }
        Ok(())
    }

    /// Inserts an entry, and evicts the oldest entries first that then no longer fit. It needs memory
    /// only for an entry that is inserted.
    #[tactic(auto, using(crate::proofs::Tables::size_push))]
    pub fn insert(&mut self, entry: Entry) -> Result<(), EncoderStreamError>
        ensures step { Steps (insert_step entry self.old) self.old self.new result }
        ensures memory { result ≡ Err Memory → insert_step entry self.old ≡ Ok (inserted entry self.old) }
    {
        let size = entry.size();
        if size > self.capacity {
            return Err(EncoderStreamError::EntryTooLarge);
        }
        if self.dropped + self.entries.len() as u64 >= 1 << 62 {
            return Err(EncoderStreamError::TooManyInsertions);
        }
        self.entries.reserve(1)?;
        evict(
            &mut self.entries,
            &mut self.dropped,
            &mut self.size,
            self.capacity - size,
        );
        self.entries.push_back_reserved(entry);
        self.size += size;
        Ok(())
    }

    /// Returns the entry of an absolute index, if it is live.
    pub fn get(&self, index: u64) -> Option<(&[u8], &[u8])>
        ensures { option_map (λ e. (e.0.now, e.1.now)) result ≡ entry_of self.now index }
    {
        if index < self.dropped {
            return None;
        }
        match self.entries.get((index - self.dropped) as usize) {
            Some(entry) => Some((entry.name(), entry.value())),
            None => None,
        }
    }

    /// Returns the entry of an index relative to a base, where 0 is the one before the base.
    pub fn get_relative(&self, base: u64, index: u64) -> Option<(&[u8], &[u8])>
        ensures { option_map (λ e. (e.0.now, e.1.now)) result
            ≡ relative_entry self.now base index }
    {
        if index < base {
            self.get(base - 1 - index)
        } else {
            None
        }
    }

    /// Returns the entry of an index past a base, where 0 is the one at the base.
    #[tactic(auto, using(crate::proofs::Tables::entry_past))]
    pub fn get_post_base(&self, base: u64, index: u64) -> Option<(&[u8], &[u8])>
        ensures { option_map (λ e. (e.0.now, e.1.now)) result
            ≡ post_base_entry self.now base index }
    {
        match base.checked_add(index) {
            Some(place) => self.get(place),
            None => {
                // No table has so many entries.
                let _ = &self.entries;
                None
            }
        }
    }
}
