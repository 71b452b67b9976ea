//! The contents of frames about requests and pushes.
ghost use Rattle.std.specs.Prelude.{◌≡◌, ℕ, [], IfOk, MatchOption, Ok, Some, option_map};
ghost use Rattle.wtp_core.specs.Varint.{number_at};
ghost use Rattle.wt_inspection.specs.Recording.{HasParts, IsNotAlone};
ghost use Rattle.wt_inspection.specs.Resolved.{HasNoFields, PartsWith};

use crate::fields::{read_section, section_then};
use crate::frames::contents::Found;
use crate::insertions::Insertions;
use crate::message::warn_of_promise;
use crate::reading::{Next, Reading};
use std::alloc::{AllocError, Global};
use wt_inspection_model::item::{FrameName, Parts, Signal};
use wtp_core::varint::{VarInt, first_varint};

/// Returns the number that these bytes are, if they are one and nothing else.
pub(super) fn only_varint(bytes: &[u8]) -> Option<VarInt>
    ensures { MatchOption result (IsNotAlone (number_at bytes.now))
        (λ number. number_at bytes.now ≡ Some (number, [])) }
{
    let (number, size) = first_varint(bytes)?;
    match &bytes[size..] {
        [] => Some(number),
        [_, ..] => None,
    }
}

/// Returns the ID that CANCEL_PUSH, GOAWAY and MAX_PUSH_ID contain. Others than one number are not
/// interpreted.
pub(super) fn id_parts(payload: &[u8], next: Next) -> Found
    ensures cancel { (at : ℕ) → HasParts FrameName.CancelPush at payload.now result.parts (Ok next)
        result.after }
    ensures goaway { (at : ℕ) → HasParts FrameName.Goaway at payload.now result.parts (Ok next)
        result.after }
    ensures most { (at : ℕ) → HasParts FrameName.MaxPushId at payload.now result.parts (Ok next)
        result.after }
    ensures plain { HasNoFields result.parts }
{
    let parts = match only_varint(payload) {
        Some(id) => Parts::Signal(Signal::Id(id.into_inner())),
        None => Parts::Opaque,
    };
    Found {
        parts,
        after: Ok(next),
    }
}

/// Returns the ID and the priority that PRIORITY_UPDATE contains. A payload without an ID is not
/// interpreted.
pub(super) fn priority_parts(alloc: Global, payload: &[u8], next: Next) -> Result<Found, AllocError>
    ensures parts { IfOk result (λ f. (at : ℕ) → HasParts FrameName.PriorityUpdate at payload.now
        f.parts (Ok next) f.after) }
    ensures plain { IfOk result (λ f. HasNoFields f.parts) }
{
    let Some((id, size)) = first_varint(payload) else {
        return Ok(Found {
            parts: Parts::Opaque,
            after: Ok(next),
        });
    };
    let mut value = Vec::new(alloc);
    value.extend_from_slice(&payload[size..])?;
    Ok(Found {
        parts: Parts::Signal(Signal::Priority(id.into_inner(), value)),
        after: Ok(next),
    })
}

/// Returns the push ID and the field section that PUSH_PROMISE contains. A payload without an ID is
/// not interpreted. A malformed section ends the reading.
pub(super) fn promise_parts(
    reading: &mut Reading,
    sent: Option<&Insertions<'_>>,
    at: usize,
    payload: &[u8],
    next: Next,
) -> Result<Found, AllocError>
    ensures parts { IfOk result (λ f. HasParts FrameName.PushPromise at payload.now f.parts
        (Ok next) f.after) }
    ensures phase { IfOk result (λ _. reading.new.phase ≡ reading.old.phase) }
    ensures sections { IfOk result (λ f. PartsWith (option_map (λ i. i.now) sent.entry) payload.now
        f.parts) }
{
    let Some((id, size)) = first_varint(payload) else {
        return Ok(Found {
            parts: Parts::Opaque,
            after: Ok(next),
        });
    };
    let section = read_section(reading.alloc, sent, &payload[size..])?;
    warn_of_promise(reading, at, &section)?;
    let after = section_then(at, &section, next);
    Ok(Found {
        parts: Parts::Signal(Signal::Promise(id.into_inner(), section)),
        after,
    })
}
