//! A table in bytes of a fixed layout, as an encoder and a decoder are stored: the words before it, and
//! its entries.

ghost use Rattle.std.specs.Prelude.{◌≡◌, ℕ, ◌+◌, ◌^◌, ◌<◌, ◌≤◌, List, ◌++◌, length, IfOk, OnOk, MatchBool, MatchOption};
ghost use Rattle.wtp_qpack.specs.Field.{Field};
ghost use Rattle.wtp_dynamic.specs.Table.{table_size, entry_size};
ghost use Rattle.wtp_dynamic.specs.Stored.{word, entry_bytes, entries_bytes, head_bytes, IsHead, IsWide, HasTable, IsEntry};

use crate::table::{DynamicTable, Entry};
use std::alloc::{AllocError, Global};

/// The words before what is held and the entries.
#[derive(Clone, Copy)]
pub struct Head {
    /// The limit of the capacity.
    pub limit: u64,
    /// The capacity.
    pub capacity: u64,
    /// How many entries were evicted.
    pub dropped: u64,
    /// The Known Received Count.
    pub known: u64,
    /// The error at which the encoder stream ended, or 0.
    pub fault: u64,
    /// How many bytes of a cut instruction are held.
    pub held: u64,
    /// How many entries are left.
    pub count: u64,
}

/// Appends a word.
#[tactic(auto, unfolding(crate::specs::Stored::word))]
pub fn put_word(out: &mut Vec<u8>, number: u64) -> Result<(), AllocError>
    ensures { OnOk result (out.new.items ≡ out.old.items ++ word number) }
{
    out.extend_from_slice(&number.to_le_bytes())
}

// Returns the number of a word.
fn number_in(front: &[u8; 8]) -> u64
    ensures { word result ≡ front.now }
{
    u64::from_le_bytes(*front)
}

/// Takes the first word of bytes. Returns its number and the bytes after it.
pub fn take_word(bytes: &[u8]) -> Option<(u64, &[u8])>
    ensures { MatchOption result (length bytes.now < 8)
        (λ x. (bytes.now ≡ word x.0 ++ x.1.now) × (length bytes.now ≡ 8 + length x.1.now)
        × (x.0 < 2 ^ 64)) }
{
    let (front, rest) = bytes.split_first_chunk::<8>()?;
    Some((number_in(front), rest))
}

impl Head {
    /// Appends the words.
    pub fn put(&self, out: &mut Vec<u8>) -> Result<(), AllocError>
        ensures { OnOk result (out.new.items ≡ out.old.items ++ head_bytes self.now) }
    {
        put_word(out, self.limit)?;
        put_word(out, self.capacity)?;
        put_word(out, self.dropped)?;
        put_word(out, self.known)?;
        put_word(out, self.fault)?;
        put_word(out, self.held)?;
        put_word(out, self.count)?;
        Ok(())
    }

    /// Takes the words at the start of bytes. Returns them and the bytes after them.
    pub fn take(bytes: &[u8]) -> Option<(Self, &[u8])>
        ensures { MatchOption result (length bytes.now < 56)
            (λ x. (bytes.now ≡ head_bytes x.0 ++ x.1.now) × IsWide x.0) }
    {
        let (limit, rest) = take_word(bytes)?;
        let (capacity, rest) = take_word(rest)?;
        let (dropped, rest) = take_word(rest)?;
        let (known, rest) = take_word(rest)?;
        let (fault, rest) = take_word(rest)?;
        let (held, rest) = take_word(rest)?;
        let (count, rest) = take_word(rest)?;
        let head = Head {
            limit,
            capacity,
            dropped,
            known,
            fault,
            held,
            count,
        };
        Some((head, rest))
    }

    /// Returns whether a table and its stream may have these numbers.
    pub fn is_valid(&self) -> bool
        ensures { MatchBool result (IsHead self.now) (¬ (IsHead self.now)) }
    {
        self.limit < 1 << 60
            && self.capacity <= self.limit
            && self.count <= 1 << 62
            && self.dropped <= (1 << 62) - self.count
            && self.known <= self.dropped + self.count
            && self.fault <= 9
            && (self.fault == 0 || self.held == 0)
    }
}

// Appends an entry.
fn put_entry(out: &mut Vec<u8>, name: &[u8], value: &[u8]) -> Result<(), AllocError>
    ensures { OnOk result (out.new.items ≡ out.old.items ++ entry_bytes (name.now, value.now)) }
{
    put_word(out, name.len() as u64)?;
    put_word(out, value.len() as u64)?;
    out.extend_from_slice(name)?;
    out.extend_from_slice(value)
}

/// Appends the entries of a table.
pub fn put_entries(out: &mut Vec<u8>, table: &DynamicTable) -> Result<(), AllocError>
    ensures { OnOk result (out.new.items ≡ out.old.items ++ entries_bytes table.now.live) }
{
    for place in table.dropped()..table.insert_count() {
        if let Some((name, value)) = table.get(place) {
            put_entry(out, name, value)?;
        }
    }
    Ok(())
}

// Returns whether two lengths are together within another.
fn are_within(first: u64, second: u64, len: u64) -> bool
    ensures { MatchBool result (first + second ≤ len) (len < first + second) }
{
    first <= len && second <= len - first
}

// Takes the texts of the entry at the start of bytes.
fn take_texts(bytes: &[u8]) -> Option<(&[u8], &[u8], &[u8])>
    ensures { MatchOption result
        ((e : Field) (rest : List ℕ) → IsEntry e → ¬ (bytes.now ≡ entry_bytes e ++ rest))
        (λ x. (bytes.now ≡ entry_bytes (x.0.now, x.1.now) ++ x.2.now)
        × IsEntry (x.0.now, x.1.now)) }
{
    let Some((name_len, rest)) = take_word(bytes) else {
        return None;
    };
    let Some((value_len, rest)) = take_word(rest) else {
        return None;
    };
    if !are_within(name_len, value_len, rest.len() as u64) {
        return None;
    }
    let (name, rest) = rest.split_at(name_len as usize);
    let (value, rest) = rest.split_at(value_len as usize);
    Some((name, value, rest))
}

// Takes the entry at the start of bytes.
fn take_entry(alloc: Global, bytes: &[u8]) -> Result<Option<(Entry, &[u8])>, AllocError>
    ensures { IfOk result (λ entry. MatchOption entry
        ((e : Field) (rest : List ℕ) → IsEntry e → ¬ (bytes.now ≡ entry_bytes e ++ rest))
        (λ x. (bytes.now ≡ entry_bytes x.0 ++ x.1.now) × IsEntry x.0)) }
{
    match take_texts(bytes) {
        None => Ok(None),
        Some((name, value, rest)) => {
            let entry = Entry::new(alloc, name, value)?;
            Ok(Some((entry, rest)))
        }
    }
}

/// Takes the entries at the start of bytes, and makes a table of them. Returns `None` if the bytes do not
/// begin with so many entries that fit the capacity.
pub fn take_table(
    alloc: Global,
    head: &Head,
    bytes: &[u8],
) -> Result<Option<DynamicTable>, AllocError>
    requires { IsHead head.now }
    ensures { IfOk result (λ table. MatchOption table
        ((live : List Field) (rest : List ℕ) → length live ≡ head.now.count
        → table_size live ≤ head.now.capacity → ¬ (bytes.now ≡ entries_bytes live ++ rest))
        (λ t. HasTable head.now bytes.now t)) }
{
    let mut table = DynamicTable::without_entries(alloc, head.limit, head.capacity, head.dropped);
    let mut rest = bytes;
    let mut count = 0;
    while count < head.count {
        let (entry, behind) = match take_entry(alloc, rest) {
            Ok(Some(found)) => found,
            Ok(None) => return Ok(None),
            Err(error) => return Err(error),
        };
        if !has_room(&table, &entry) {
            return Ok(None);
        }
        table.append(entry)?;
        rest = behind;
        count += 1;
    }
    Ok(Some(table))
}

// Returns whether an entry fits without an eviction.
fn has_room(table: &DynamicTable, entry: &Entry) -> bool
    ensures { MatchBool result (table_size table.now.live + entry_size entry.now ≤ table.now.capacity)
        (table.now.capacity < table_size table.now.live + entry_size entry.now) }
{
    entry.size() <= table.capacity() - table.size()
}
