//! Which fields an encoder inserts, and to which entries it refers (RFC 9204, sections 2.1.1.1, 4.3
//! and 4.5).

ghost use Rattle.std.specs.Prelude.{◌≡◌, nat_le, Some, MatchOption};
ghost use Rattle.wtp_qpack.specs.Field.{IsOctets};
ghost use Rattle.wtp_dynamic.specs.Plans.{planned_field, CanPlan};
ghost use Rattle.wtp_dynamic.specs.Table.{entry_size};
ghost use Rattle.wtp_dynamic_encoder.specs.Choosing.{field_of, is_field, has_name, FindsIn, usable, draining_index, IsCopy, IsOrderFor, IsWanted, IsLiteral, Chooses};
ghost use Rattle.wtp_dynamic_encoder.specs.Keys.{IsKey};
ghost use Rattle.wtp_dynamic_encoder.specs.PlanView.{plan_of, order_of};

use crate::indexed::IndexedTable;
use crate::key::Key;
use crate::plan::{Order, Plan};
use crate::proposal::{Policy, Proposal};

/// Every slice is a text of octets.
pub(crate) fn are_octets(text: &[u8])
    ensures { IsOctets text.now }
{
    let _len = text.len();
}

/// Returns how many bytes of a table hold the entries to which lines refer.
fn usable(policy: Policy, table: &IndexedTable) -> u64
    ensures { result ≡ usable policy table.now }
{
    let kept = policy.reserved.min(table.capacity() / 2);
    table.capacity() - kept
}

/// Returns whether lines may refer to an entry once it is inserted: it is not draining then.
fn is_usable(policy: Policy, table: &IndexedTable, proposal: Proposal<'_>) -> bool
    ensures { result ≡ nat_le (entry_size (field_of proposal.entry)) (usable policy table.now) }
{
    match usable(policy, table).checked_sub(32) {
        Some(room) => proposal.name.len() as u64 + proposal.value.len() as u64 <= room,
        None => false,
    }
}

/// Returns the smallest absolute index to which lines refer.
pub(crate) fn draining_index(policy: Policy, table: &IndexedTable) -> u64
    ensures { result ≡ draining_index policy table.now }
{
    table.dropped_for(usable(policy, table))
}

/// Returns the absolute index of the latest entry with this name and value, whose key this is, among
/// those from an index on and below another.
fn find_field(
    table: &IndexedTable,
    low: u64,
    below: u64,
    key: Key,
    proposal: Proposal<'_>,
) -> Option<u64>
    requires { IsKey key (field_of proposal) }
    ensures { FindsIn (is_field (field_of proposal.entry)) table.now low below result }
{
    match table.find(proposal.name, proposal.value, key.hashes, below) {
        Some(place) => { if place < low { None } else { Some(place) } }
        None => None,
    }
}

/// Returns the absolute index of the latest entry with this name, among those from an index on and
/// below another.
fn find_name(
    table: &IndexedTable,
    low: u64,
    below: u64,
    key: Key,
    proposal: Proposal<'_>,
) -> Option<u64>
    requires { IsKey key (field_of proposal) }
    ensures { FindsIn (has_name proposal.entry.name.now) table.now low below result }
{
    match table.find_name(proposal.name, key.hashes, below) {
        Some(place) => { if place < low { None } else { Some(place) } }
        None => None,
    }
}

/// Returns the order that inserts an entry, whose key and latest copy these are: that of the copy, or
/// else with the name of an entry, or else with its own.
pub(crate) fn order_for<'a>(
    table: &IndexedTable,
    key: Key,
    latest: Option<u64>,
    name: &'a [u8],
    value: &'a [u8],
) -> Order<'a>
    requires key { IsKey key (name.now, value.now) }
    requires latest { IsCopy (name.now, value.now) table.now latest }
    ensures { IsOrderFor (name.now, value.now) table.now (order_of result) }
{
    let count = table.insert_count();
    if let Some(place) = latest {
        return Order::Duplicates(count - 1 - place);
    }
    if let Some(index) = key.named {
        return Order::InsertsNamed(true, index, value);
    }
    match table.find_name(name, key.hashes, count) {
        Some(place) => Order::InsertsNamed(false, count - 1 - place, value),
        None => Order::InsertsLiteral(name, value),
    }
}

/// Returns the absolute index of the latest entry that is a field, whose key this is, or `None` if
/// there is none.
pub(crate) fn copy_of(table: &IndexedTable, key: Key, name: &[u8], value: &[u8]) -> Option<u64>
    requires { IsKey key (name.now, value.now) }
    ensures { IsCopy (name.now, value.now) table.now result }
{
    table.find(name, value, key.hashes, table.insert_count())
}

/// Returns the latest entry that is a field, or that there is none, if the field, whose key this is,
/// is inserted: it is to be an entry, to which lines may then refer, and neither table has it as one
/// that is not draining.
pub(crate) fn wanted(
    policy: Policy,
    table: &IndexedTable,
    key: Key,
    proposal: Proposal<'_>,
) -> Option<Option<u64>>
    requires { IsKey key (field_of proposal) }
    ensures { MatchOption result
        (¬ (IsWanted policy proposal.entry table.now))
        (λ latest. IsWanted policy proposal.entry table.now
        × IsCopy (field_of proposal.entry) table.now latest) }
{
    let is_proposed = policy.proposes(proposal) && is_usable(policy, table, proposal);
    if !is_proposed || key.whole.is_some() {
        return None;
    }
    match copy_of(table, key, proposal.name, proposal.value) {
        Some(place) => {
            if place < draining_index(policy, table) {
                Some(Some(place))
            } else {
                None
            }
        }
        None => Some(None),
    }
}

/// Returns how a literal gives the field of a proposal, whose key this is: with the name of an entry, or with its own.
fn literal_for<'a>(
    table: &IndexedTable,
    low: u64,
    bound: u64,
    key: Key,
    proposal: Proposal<'a>,
) -> Plan<'a>
    requires key { IsKey key (field_of proposal) }
    requires literal { IsLiteral table.now low bound proposal }
    ensures can { CanPlan (plan_of result) }
    ensures field { planned_field table.now bound (plan_of result) ≡ Some (field_of proposal.entry) }
    ensures chosen { Chooses table.now low bound proposal.entry (plan_of result) }
{
    are_octets(proposal.name);
    are_octets(proposal.value);
    let never = proposal.is_never_indexed();
    if let Some(index) = key.named {
        return Plan::StaticName(never, index, proposal.value);
    }
    match find_name(table, low, bound, key, proposal) {
        Some(place) => Plan::TableName(never, place, proposal.value),
        None => Plan::NewName(never, proposal.name, proposal.value),
    }
}

/// Returns how a line gives the field of a proposal, whose key this is, by dynamic entries with an absolute index from
/// one on and below a bound: by the static entry that is the field; or else by such a dynamic entry,
/// unless the field is never indexed; or else as a literal.
pub(crate) fn choose<'a>(
    table: &IndexedTable,
    low: u64,
    bound: u64,
    key: Key,
    proposal: Proposal<'a>,
) -> Plan<'a>
    requires { IsKey key (field_of proposal) }
    ensures can { CanPlan (plan_of result) }
    ensures field { planned_field table.now bound (plan_of result) ≡ Some (field_of proposal.entry) }
    ensures chosen { Chooses table.now low bound proposal.entry (plan_of result) }
{
    if let Some(index) = key.whole {
        return Plan::StaticField(index);
    }
    if proposal.is_never_indexed() {
        return literal_for(table, low, bound, key, proposal);
    }
    match find_field(table, low, bound, key, proposal) {
        Some(place) => Plan::TableField(place),
        None => literal_for(table, low, bound, key, proposal),
    }
}
