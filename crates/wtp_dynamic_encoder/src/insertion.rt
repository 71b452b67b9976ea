//! What an encoder does to its table, and the orders that do the same to the decoder's (RFC 9204,
//! sections 2.1.1, 3.2 and 4.3).

ghost use Rattle.std.specs.Prelude.{◌≡◌, ◌-◌, ◌<◌, ◌≤◌, MatchOption, MatchResult};
ghost use Rattle.wtp_dynamic.specs.Table.{entry_size};
ghost use Rattle.wtp_dynamic.specs.EncoderState.{Owes, may_resize};
ghost use Rattle.wtp_dynamic_encoder.specs.Choosing.{field_of, IsCopy};
ghost use Rattle.wtp_dynamic_encoder.specs.Keys.{IsKey, AreKeys};
ghost use Rattle.wtp_dynamic_encoder.specs.Encoding.{encoder_of, can_insert, InsertsIf, ResizesIf, Offered, AreOffered, IsInserted, StoppedAt, Ordered};

use crate::choice::{are_octets, order_for, wanted};
use crate::indexed::IndexedTable;
use crate::key::{Key, key_at};
use crate::plan::{Order, write_order};
use crate::proposal::{Policy, Proposal};
use std::alloc::{AllocError, Global};
use wtp_dynamic::ledger::Ledger;
use wtp_dynamic::table::Entry;

/// Returns how many bytes of the capacity an entry leaves to others, or `None` if it is larger than
/// the table.
fn room_beside(table: &IndexedTable, name: &[u8], value: &[u8]) -> Option<u64>
    ensures { let size = entry_size (name.now, value.now) in MatchOption result
        (table.now.capacity < size)
        (λ room. (size ≤ table.now.capacity) × (room ≡ table.now.capacity - size)) }
{
    let texts = name.len() as u64 + value.len() as u64;
    table.capacity().checked_sub(32)?.checked_sub(texts)
}

/// Returns whether an entry may be inserted: it is not larger than the table, and only entries have
/// to go that are known to be received, and to which no section refers that is not acknowledged.
fn may_insert(table: &IndexedTable, ledger: &Ledger, name: &[u8], value: &[u8]) -> bool
    ensures { result ≡ can_insert (name.now, value.now) (encoder_of table.now ledger.now) }
{
    match room_beside(table, name, value) {
        Some(room) => {
            ledger.may_evict(table.dropped_for(room)) && table.insert_count() < 1 << 62
        }
        None => false,
    }
}

/// Returns whether the capacity may be changed: the limit is not 0 (section 3.2.3), the capacity is
/// within it, and only entries have to go that may go.
fn may_resize(table: &IndexedTable, ledger: &Ledger, capacity: u64) -> bool
    ensures { result ≡ may_resize capacity (encoder_of table.now ledger.now) }
{
    table.limit() > 0 && capacity <= table.limit() && ledger.may_evict(table.dropped_for(capacity))
}

/// Inserts an entry, whose key and latest copy these are, if it may be, and appends the order. Returns
/// whether it was inserted.
///
/// Returns [`AllocError`] if it may be and allocation failed; nothing has changed then.
fn insert_if_may(
    alloc: Global,
    table: &mut IndexedTable,
    ledger: &Ledger,
    key: Key,
    latest: Option<u64>,
    name: &[u8],
    value: &[u8],
    out: &mut Vec<u8>,
) -> Result<bool, AllocError>
    requires key { IsKey key (name.now, value.now) }
    requires latest { IsCopy (name.now, value.now) table.old latest }
    ensures { InsertsIf (name.now, value.now) ledger.now table.old table.new out.old.items
        out.new.items result }
{
    if !may_insert(table, ledger, name, value) {
        return Ok(false);
    }
    let entry = Entry::new(alloc, name, value)?;
    let len = out.len();
    match write_order(out, order_for(table, key, latest, name, value)) {
        Ok(()) => match table.insert(alloc, entry, key.hashes) {
            Ok(()) => return Ok(true),
            Err(_) => out.truncate(len),
        },
        Err(_) => out.truncate(len),
    }
    Err(AllocError)
}

/// The same, and what follows of it: a decoder that does the order has the same table, and no entry
/// was evicted that may not be.
pub(crate) fn insert_entry(
    alloc: Global,
    table: &mut IndexedTable,
    ledger: &Ledger,
    key: Key,
    latest: Option<u64>,
    name: &[u8],
    value: &[u8],
    out: &mut Vec<u8>,
) -> Result<bool, AllocError>
    requires key { IsKey key (name.now, value.now) }
    requires latest { IsCopy (name.now, value.now) table.old latest }
    ensures entry { InsertsIf (name.now, value.now) ledger.now table.old table.new out.old.items
        out.new.items result }
    ensures orders { Ordered table.old table.new out.old.items out.new.items }
    ensures owes { Owes (encoder_of table.old ledger.now) → Owes (encoder_of table.new ledger.now) }
{
    are_octets(name);
    are_octets(value);
    // An instruction for an entry that fits the limit is not too long.
    let _fits = table.capacity() <= table.limit();
    insert_if_may(alloc, table, ledger, key, latest, name, value, out)
}

/// Sets the capacity if it may be, and appends the order. Returns whether it was set.
///
/// Returns [`AllocError`] if it may be and allocation failed; nothing has changed then.
pub(crate) fn set_capacity(
    table: &mut IndexedTable,
    ledger: &Ledger,
    capacity: u64,
    out: &mut Vec<u8>,
) -> Result<bool, AllocError>
    ensures { ResizesIf capacity ledger.now table.old table.new out.old.items out.new.items
        result }
{
    if !may_resize(table, ledger, capacity) {
        return Ok(false);
    }
    let len = out.len();
    match write_order(out, Order::Sets(capacity)) {
        Ok(()) => match table.set_capacity(capacity) {
            Ok(()) => return Ok(true),
            Err(_) => out.truncate(len),
        },
        Err(_) => out.truncate(len),
    }
    Err(AllocError)
}

/// Inserts the field of a proposal, whose key this is, if it is wanted and may be.
///
/// Returns [`AllocError`] if it is inserted and allocation failed; nothing has changed then.
#[tactic(auto, using(crate::proofs::Orders::one_step))]
fn insert_proposed(
    alloc: Global,
    policy: Policy,
    table: &mut IndexedTable,
    ledger: &Ledger,
    key: Key,
    proposal: Proposal<'_>,
    out: &mut Vec<u8>,
) -> Result<(), AllocError>
    requires { IsKey key (field_of proposal) }
    ensures offered { MatchResult result
        (λ _. Offered policy proposal.entry ledger.now table.old table.new out.old.items
        out.new.items)
        (λ _. IsInserted policy proposal.entry ledger.now table.old
        × (table.new ≡ table.old) × (out.new.items ≡ out.old.items)) }
    ensures orders { Ordered table.old table.new out.old.items out.new.items }
    ensures owes { Owes (encoder_of table.old ledger.now) → Owes (encoder_of table.new ledger.now) }
{
    let Some(latest) = wanted(policy, table, key, proposal) else {
        return Ok(());
    };
    match insert_entry(
        alloc,
        table,
        ledger,
        key,
        latest,
        proposal.name,
        proposal.value,
        out,
    ) {
        Ok(_) => Ok(()),
        Err(fault) => Err(fault),
    }
}

/// Inserts the fields of proposals, whose keys these are, that are wanted, one after the other.
///
/// Returns [`AllocError`] if allocation failed; only those before it were inserted then.
#[tactic(auto, using(crate::proofs::Orders::more_steps))]
pub(crate) fn insert_all(
    alloc: Global,
    policy: Policy,
    table: &mut IndexedTable,
    ledger: &Ledger,
    proposals: &[Proposal<'_>],
    keys: &[Key],
    out: &mut Vec<u8>,
) -> Result<(), AllocError>
    requires { AreKeys keys.now proposals.now }
    ensures offered { MatchResult result
        (λ _. AreOffered policy proposals.now ledger.now table.old table.new out.old.items
        out.new.items)
        (λ _. StoppedAt policy proposals.now ledger.now table.old table.new out.old.items
        out.new.items) }
    ensures orders { Ordered table.old table.new out.old.items out.new.items }
    ensures owes { Owes (encoder_of table.old ledger.now) → Owes (encoder_of table.new ledger.now) }
{
    for i in 0..proposals.len() {
        let proposal = proposals[i];
        let key = key_at(keys, i, proposal);
        match insert_proposed(alloc, policy, table, ledger, key, proposal, out) {
            Ok(()) => {}
            Err(fault) => return Err(fault),
        }
    }
    Ok(())
}
