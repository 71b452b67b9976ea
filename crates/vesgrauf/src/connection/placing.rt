//! Places in the order of sending (RFC 9218, section 10).
ghost use Rattle.std.specs.Prelude.{◌≡◌, IfOk, OnOk, OnErr};
ghost use Rattle.vesgrauf.specs.Places.{GivesPlace, KeepsPlace, MovesPlace, TakesPlace};

use crate::entry::Entry;
use std::alloc::AllocError;
use vesgrauf_ready::rank::{Kind, Priority};
use vesgrauf_ready::ready::Ready;

// Gives a stream its place. Returns which one is given its own later, which this one is not then.
pub(super) fn give_place(
    ready: &mut Ready,
    later: Option<u64>,
    id: u64,
    entry: &Entry,
) -> Result<Option<u64>, AllocError>
    ensures ok { IfOk result (GivesPlace id entry.now ready.old ready.new later) }
    ensures err { OnErr result (ready.new ≡ ready.old) }
{
    ready.insert(id, entry.kind())?;
    match later {
        Some(other) if other == id => Ok(None),
        later => Ok(later),
    }
}

// Gives a stream its place before bytes are queued on it, if QUIC takes any, as `give_place` does.
pub(super) fn take_place(
    ready: &mut Ready,
    later: Option<u64>,
    id: u64,
    entry: &Entry,
) -> Result<Option<u64>, AllocError>
    ensures ok { IfOk result (TakesPlace id entry.now ready.old ready.new later) }
    ensures err { OnErr result (ready.new ≡ ready.old) }
{
    if !entry.may_send() {
        return Ok(later);
    }
    give_place(ready, later, id, entry)
}

// Leaves a stream its place only if something waits.
pub(super) fn keep_place(ready: &mut Ready, id: u64, entry: &Entry)
    ensures { KeepsPlace id entry.now ready.old ready.new }
{
    if !entry.has_more() {
        ready.remove(id, entry.kind());
    }
}

// Gives a stream that has a place another one, by this priority.
pub(super) fn move_place(
    ready: &mut Ready,
    id: u64,
    entry: &Entry,
    priority: Priority,
) -> Result<(), AllocError>
    ensures ok { OnOk result (MovesPlace id entry.now priority ready.old ready.new) }
    ensures err { OnErr result (ready.new ≡ ready.old) }
{
    ready.change(id, entry.kind(), Kind::Message(priority))
}
