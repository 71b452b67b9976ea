//! Where the entries are.
ghost use Rattle.std.specs.Prelude.{◌≡◌, ℕ, ◌↔◌, ◌++◌, ◌∷◌, [], IsTrue, IsSome, IfOk, OnErr, Some, None, slice_get, slice_set};
ghost use Rattle.std.specs.Borrow.{Lends, sem};
ghost use Rattle.vesgrauf_streams.specs.Slots.{id_in, value_in, id_at, value_at, refilled, IsFree, IsSame};
ghost use Rattle.vesgrauf_streams.specs.declared.slots.Slot.TheVariants.{Free, Taken};

use std::alloc::AllocError;
use std::mem::replace;

/// A place for one entry.
#[derive(Drop)]
pub(crate) enum Slot<V> {
    /// No entry, and the slot that is filled after this one, if that is free then.
    Free(usize),
    /// The entry of a stream: its ID and its value.
    Taken(u64, V),
}

impl<V> Slot<V> {
    ghost use Rattle.vesgrauf_streams.specs.contracts.slots.Slot.{the_row};

    /// Lends the value of an entry.
    #[inline(always)]
    pub(crate) fn value_mut(&mut self) -> &mut V
        requires { IsSome (id_in (Some self.old)) }
        ensures* lends { sem 𝓛 (Lends (the_row V.row) V.row self.entry result (refilled self.entry.now)) }
        ensures value { value_in (Some self.old) ≡ Some result.now }
    {
        match self {
            Slot::Taken(_, value) => value,
            Slot::Free(_) => unreachable!(),
        }
    }
}

/// Returns whether a slot has the entry of a stream.
#[inline(always)]
pub(crate) fn has<V>(slots: &[Slot<V>], slot: usize, id: u64) -> bool
    ensures { IsTrue result ↔ (id_at slots.now slot ≡ Some id) }
{
    match slots.get(slot) {
        Some(Slot::Taken(there, _)) => *there == id,
        _ => false,
    }
}

/// Returns the value in a slot.
#[inline(always)]
pub(crate) fn value_of<V>(slots: &[Slot<V>], slot: usize) -> &V
    requires { IsSome (id_at slots.now slot) }
    ensures { value_at slots.now slot ≡ Some result.now }
{
    match &slots[slot] {
        Slot::Taken(_, value) => value,
        Slot::Free(_) => unreachable!(),
    }
}

/// Returns a slot that is free: this one if it is, or a new one, after which this one is filled.
///
/// # Errors
///
/// If memory is refused; nothing has changed then.
pub(crate) fn free_slot<V: Drop>(slots: &mut Vec<Slot<V>>, free: usize) -> Result<usize, AllocError>
    ensures free { IfOk result (IsFree slots.new.items) }
    ensures same { IsSame slots.old.items slots.new.items }
{
    if let Some(Slot::Free(_)) = slots.get(free) {
        return Ok(free);
    }
    let slot = slots.len();
    slots.push(Slot::Free(free))?;
    Ok(slot)
}

/// Fills a slot that is free, and returns the one that is filled next.
pub(crate) fn fill<V: Drop>(slots: &mut Vec<Slot<V>>, slot: usize, id: u64, value: V) -> usize
    requires { IsFree slots.old.items slot }
    ensures { slots.new.items ≡ slice_set slots.old.items slot (Taken id value) }
{
    match replace(&mut slots[slot], Slot::Taken(id, value)) {
        Slot::Free(next) => next,
        Slot::Taken(..) => unreachable!(),
    }
}

/// Takes the value out of a slot. After that one this one is filled.
pub(crate) fn take<V>(slots: &mut Vec<Slot<V>>, slot: usize, free: usize) -> V
    requires { IsSome (id_at slots.old.items slot) }
    ensures slots { slots.new.items ≡ slice_set slots.old.items slot (Free free) }
    ensures value { value_at slots.old.items slot ≡ Some result }
{
    match replace(&mut slots[slot], Slot::Free(free)) {
        Slot::Taken(_, value) => value,
        Slot::Free(_) => unreachable!(),
    }
}
