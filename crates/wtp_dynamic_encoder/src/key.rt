//! What is known of a field before it is looked up in the dynamic table.

ghost use Rattle.std.specs.Prelude.{◌≡◌, Some, slice_get};
ghost use Rattle.wtp_dynamic_encoder.specs.declared.key.Key.{Key};
ghost use Rattle.wtp_dynamic_encoder.specs.Choosing.{field_of};
ghost use Rattle.wtp_dynamic_encoder.specs.Keys.{IsKey, AreKeys};

use crate::hash::Hashes;
use crate::lookup::find_named;
use crate::proposal::Proposal;
use wtp_qpack::parts::first_static_entry;

/// The hashes of a field, and where it is in the static table.
#[derive(Clone, Copy)]
pub(crate) struct Key {
    pub(crate) hashes: Hashes,
    /// The index of the first entry of the static table that has the name.
    pub(crate) named: Option<u64>,
    /// The index of the first that has the name and the value.
    pub(crate) whole: Option<u64>,
}

impl Key {
    /// Returns the key of a field.
    pub(crate) fn of(name: &[u8], value: &[u8]) -> Self
        ensures { IsKey result (name.now, value.now) }
    {
        let named = first_static_entry(name).map(|index| index as u64);
        Key {
            hashes: Hashes::of(name, value),
            named,
            whole: find_named(named, name, value),
        }
    }
}

/// Replaces keys by those of proposals, in their order: of all, or of the first so many if allocation
/// failed.
pub(crate) fn fill_keys(keys: &mut Vec<Key>, proposals: &[Proposal<'_>])
    ensures { AreKeys keys.new.items proposals.now }
{
    keys.clear();
    for proposal in proposals {
        match keys.push(Key::of(proposal.name, proposal.value)) {
            Ok(_) => {}
            Err(_) => return,
        }
    }
}

/// Returns the key of the proposal of a place: the one that is kept, or else made anew.
pub(crate) fn key_at(keys: &[Key], place: usize, proposal: Proposal<'_>) -> Key
    requires { (key : Key) → slice_get keys.now place ≡ Some key → IsKey key (field_of proposal) }
    ensures { IsKey result (field_of proposal.entry) }
{
    match keys.get(place) {
        Some(key) => *key,
        None => Key::of(proposal.name, proposal.value),
    }
}
