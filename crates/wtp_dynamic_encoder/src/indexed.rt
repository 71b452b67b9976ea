//! The dynamic table of an encoder, in which an entry is found by its texts without going over the
//! others (RFC 9204, section 3.2).

ghost use Rattle.std.specs.Prelude.{◌≡◌, ◌^◌, ◌<◌, ◌≤◌, IfOk};
ghost use Rattle.wtp_dynamic.specs.Table.{Table, empty_table, insert_count, table_size, evicted, FindsLatest};
ghost use Rattle.wtp_dynamic.specs.Steps.{set_step, insert_step, Steps};
ghost use Rattle.wtp_dynamic_encoder.specs.Choosing.{is_field, has_name};
ghost use Rattle.wtp_dynamic_encoder.specs.Indexed.{IsIndexed, IsIndexedBy, Tells};
ghost use Rattle.wtp_dynamic_encoder.specs.Hashing.{hash_text, name_hash, field_hash, AreHashes};

use crate::chain::Chain;
use crate::hash::Hashes;
use std::alloc::{AllocError, Global};
use std::marker::Model;
use wtp_dynamic::error::EncoderStreamError;
use wtp_dynamic::table::{DynamicTable, Entry};

/// The dynamic table, and where the hashes of its entries are.
#[derive(Drop)]
pub(crate) struct IndexedTable {
    table: DynamicTable,
    names: Chain,
    fields: Chain,
}

// Contracts treat the table as what it is without the hashes.
impl Model for IndexedTable {
    ghost use Rattle.wtp_dynamic.specs.Table.{Table};
    ghost use Rattle.wtp_dynamic_encoder.specs.Indexed.{IsIndexed};

    ghost Value = { Table };

    ghost view = { λ t. t.table };

    ghost invariant = { λ t. IsIndexed t.table t.names t.fields };
}

/// Returns whether an index is below another, and its entry has this name and value.
#[tactic(auto, using(crate::proofs::Walks::tests))]
fn is_field(table: &DynamicTable, below: u64, index: u64, name: &[u8], value: &[u8]) -> bool
    ensures { Tells result (is_field (name.now, value.now)) table.now below index }
{
    if index >= below {
        return false;
    }
    match table.get(index) {
        Some((known, text)) => text == value && known == name,
        None => false,
    }
}

/// Returns whether an index is below another, and its entry has this name.
#[tactic(auto, using(crate::proofs::Walks::tests))]
fn has_name(table: &DynamicTable, below: u64, index: u64, name: &[u8]) -> bool
    ensures { Tells result (has_name name.now) table.now below index }
{
    if index >= below {
        return false;
    }
    match table.get(index) {
        Some((known, _)) => known == name,
        None => false,
    }
}

/// Returns the absolute index of the latest entry with this name and value, whose hash this is,
/// among those with an index below `below`.
fn find_field(
    table: &DynamicTable,
    fields: &Chain,
    hash: u64,
    name: &[u8],
    value: &[u8],
    below: u64,
) -> Option<u64>
    requires index { IsIndexedBy field_hash table.now fields.now }
    requires hash { hash ≡ field_hash (name.now, value.now) }
    ensures { FindsLatest (is_field (name.now, value.now)) table.now below result }
{
    let mut place = fields.latest(hash);
    while place > 0 {
        let index = table.dropped() + (place - 1) as u64;
        if is_field(table, below, index, name, value) {
            return Some(index);
        }
        place = fields.earlier(hash, place - 1);
    }
    None
}

/// Returns the absolute index of the latest entry with this name, whose hash this is, among those
/// with an index below `below`.
fn find_name(table: &DynamicTable, names: &Chain, hash: u64, name: &[u8], below: u64) -> Option<u64>
    requires index { IsIndexedBy name_hash table.now names.now }
    requires hash { hash ≡ hash_text 0 name.now }
    ensures { FindsLatest (has_name name.now) table.now below result }
{
    let mut place = names.latest(hash);
    while place > 0 {
        let index = table.dropped() + (place - 1) as u64;
        if has_name(table, below, index, name) {
            return Some(index);
        }
        place = names.earlier(hash, place - 1);
    }
    None
}

/// Returns the hashes of the names and of the fields of a table.
fn index_of(alloc: Global, table: &DynamicTable) -> Result<(Chain, Chain), AllocError>
    ensures { IfOk result (λ index. IsIndexed table.now index.0 index.1) }
{
    let mut names = Chain::after(alloc, table.dropped());
    let mut fields = Chain::after(alloc, table.dropped());
    for index in table.dropped()..table.insert_count() {
        if let Some((name, value)) = table.get(index) {
            let hashes = Hashes::of(name, value);
            names.append(alloc, hashes.name)?;
            fields.append(alloc, hashes.field)?;
        }
    }
    Ok((names, fields))
}

impl IndexedTable {
    /// Creates a table of one whose hashes are not known.
    ///
    /// Returns [`AllocError`] if allocation failed.
    pub(crate) fn of(alloc: Global, table: DynamicTable) -> Result<Self, AllocError>
        ensures { IfOk result (λ indexed. indexed ≡ table) }
    {
        let (names, fields) = index_of(alloc, &table)?;
        Ok(IndexedTable {
            table,
            names,
            fields,
        })
    }

    /// Creates an empty table of capacity 0. Nothing is allocated.
    #[tactic(auto, using(crate::proofs::Walks::index_none))]
    pub(crate) fn new(alloc: Global, limit: u64) -> Self
        requires { limit < 2 ^ 60 }
        ensures { result ≡ empty_table limit }
    {
        IndexedTable {
            table: DynamicTable::new(alloc, limit),
            names: Chain::new(alloc),
            fields: Chain::new(alloc),
        }
    }

    /// Returns the table.
    #[inline(always)]
    pub(crate) fn table(&self) -> &DynamicTable
        ensures { result.now ≡ self.now }
    {
        &self.table
    }

    /// Returns how many entries have ever been inserted.
    pub(crate) fn insert_count(&self) -> u64
        ensures value { result ≡ insert_count self.now }
        ensures few { result ≤ 2 ^ 62 }
    {
        self.table.insert_count()
    }

    /// Returns the size of the entries that are left, which is at most the capacity.
    pub(crate) fn size(&self) -> u64
        ensures value { result ≡ table_size self.now.live }
        ensures fits { result ≤ self.now.capacity }
    {
        self.table.size()
    }

    /// Returns the capacity, which is at most the limit.
    pub(crate) fn capacity(&self) -> u64
        ensures value { result ≡ self.now.capacity }
        ensures within { result ≤ self.now.limit }
    {
        self.table.capacity()
    }

    /// Returns the limit of the capacity.
    pub(crate) fn limit(&self) -> u64
        ensures value { result ≡ self.now.limit }
        ensures few { result < 2 ^ 60 }
    {
        self.table.limit()
    }

    /// Returns how many entries will have been evicted once those that are left have at most `room`
    /// bytes.
    pub(crate) fn dropped_for(&self, room: u64) -> u64
        ensures { result ≡ (evicted room self.now).dropped }
    {
        self.table.dropped_for(room)
    }

    /// Returns the absolute index of the latest entry with this name and value, whose hashes these
    /// are, among those with an index below `below`.
    pub(crate) fn find(&self, name: &[u8], value: &[u8], hashes: Hashes, below: u64) -> Option<u64>
        requires { AreHashes hashes (name.now, value.now) }
        ensures { FindsLatest (is_field (name.now, value.now)) self.now below result }
    {
        find_field(&self.table, &self.fields, hashes.field, name, value, below)
    }

    /// Returns the absolute index of the latest entry with this name, among those with an index
    /// below `below`.
    pub(crate) fn find_name(&self, name: &[u8], hashes: Hashes, below: u64) -> Option<u64>
        requires { hashes.name ≡ hash_text 0 name.now }
        ensures { FindsLatest (has_name name.now) self.now below result }
    {
        find_name(&self.table, &self.names, hashes.name, name, below)
    }

    /// Changes the capacity, and evicts the oldest entries that no longer fit. It needs no memory.
    pub(crate) fn set_capacity(&mut self, capacity: u64) -> Result<(), EncoderStreamError>
        ensures { Steps (set_step capacity self.old) self.old self.new result }
    {
        match self.table.set_capacity(capacity) {
            Ok(()) => {
                let dropped = self.table.dropped();
                self.names.drop_to(dropped);
                self.fields.drop_to(dropped);
                Ok(())
            }
            Err(fault) => Err(fault),
        }
    }

    /// Inserts an entry, whose hashes these are, and evicts the oldest entries first that then no
    /// longer fit.
    pub(crate) fn insert(
        &mut self,
        alloc: Global,
        entry: Entry,
        hashes: Hashes,
    ) -> Result<(), EncoderStreamError>
        requires { AreHashes hashes entry }
        ensures { Steps (insert_step entry self.old) self.old self.new result }
    {
        let _few = self.table.dropped();
        self.names.reserve(alloc)?;
        self.fields.reserve(alloc)?;
        match self.table.insert(entry) {
            Ok(()) => {
                let dropped = self.table.dropped();
                self.names.advance(dropped, hashes.name);
                self.fields.advance(dropped, hashes.field);
                Ok(())
            }
            Err(fault) => Err(fault),
        }
    }
}
