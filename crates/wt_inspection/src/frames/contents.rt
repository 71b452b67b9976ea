//! The contents of complete frames (RFC 9114, section 7.2).
ghost use Rattle.std.specs.Prelude.{◌≡◌, ◌<◌, ◌+◌, ◌^◌, ℕ, false, Ok, IfOk, length, option_map};
ghost use Rattle.wt_inspection_model.specs.Names.{frame_name_of};
ghost use Rattle.wt_inspection.specs.Recording.{HasParts, Takes, TakesDataFrame, is_data};
ghost use Rattle.wt_inspection.specs.Resolved.{HasNoFields, PartsWith};
ghost use Rattle.wt_inspection.specs.Walks.{Leads};

use crate::capsules::CapsuleBatch;
use crate::fields::{read_section, section_then};
use crate::frames::Place;
use crate::frames::signals::{id_parts, priority_parts, promise_parts};
use crate::frames::warnings::late_data;
use crate::insertions::Insertions;
use crate::limits::warn_of_values;
use crate::message::take_section;
use crate::reading::{Next, Phase, Reading, Then, add_warning};
use crate::settings::{read_settings, settings_then, warn_of_settings};
use std::alloc::AllocError;
use wt_inspection_model::item::{End, FrameName, Parts};
use wtp_core::varint::VarInt;
use wtp_wire::frame::FrameKind;
use wtp_wire::rules::StreamRole;

/// What the payload of a frame contains, and what follows the frame.
#[derive(Drop)]
pub(super) struct Found {
    pub(super) parts: Parts,
    pub(super) after: Then,
}

/// Returns what the payload of a complete frame contains. A fault in it ends the reading.
#[tactic(auto, using(crate::proofs::ResolvedLemmas::plain_parts, crate::proofs::MessageLemmas::data_leads, crate::proofs::MessageLemmas::data_has, crate::proofs::MessageLemmas::opaque_leads))]
pub(super) fn parts_of(
    reading: &mut Reading,
    sent: Option<&Insertions<'_>>,
    role: StreamRole,
    place: Place,
    number: VarInt,
    payload: &[u8],
    next: Next,
) -> Result<Found, AllocError>
    requires small { length payload.now < 2 ^ 62 }
    requires place { place.at + place.head + length payload.now < 2 ^ 64 }
    ensures parts { IfOk result (λ f. HasParts (frame_name_of number) place.at payload.now f.parts
        (Ok next) f.after) }
    ensures stage { IfOk result (λ f. Leads reading.old.phase reading.new.phase
        (Takes role (frame_name_of number) (place.at + place.head) payload.now f.parts
        (Ok next) f.after) f.after) }
    ensures sections { IfOk result (λ f. PartsWith (option_map (λ i. i.now) sent.entry) payload.now
        f.parts) }
{
    if is_data(number) {
        return data_parts(reading, place.at + place.head, payload, Ok(next));
    }
    other_parts(reading, sent, role, place.at, number, payload, next)
}

/// Returns what the payload of a complete frame contains, if it is not a DATA frame.
#[tactic(auto, using(crate::proofs::ResolvedLemmas::plain_parts, crate::proofs::MessageLemmas::opaque_leads))]
fn other_parts(
    reading: &mut Reading,
    sent: Option<&Insertions<'_>>,
    role: StreamRole,
    at: usize,
    number: VarInt,
    payload: &[u8],
    next: Next,
) -> Result<Found, AllocError>
    requires small { length payload.now < 2 ^ 62 }
    requires other { is_data (frame_name_of number) ≡ false }
    ensures parts { IfOk result (λ f. HasParts (frame_name_of number) at payload.now f.parts
        (Ok next) f.after) }
    ensures stage { IfOk result (λ f. (start : ℕ) → Leads reading.old.phase reading.new.phase
        (Takes role (frame_name_of number) start payload.now f.parts (Ok next) f.after) f.after) }
    ensures sections { IfOk result (λ f. PartsWith (option_map (λ i. i.now) sent.entry) payload.now
        f.parts) }
{
    match FrameName::of(number) {
        FrameName::Read(FrameKind::Headers) => headers_parts(
            reading, sent, role, at, payload, next,
        ),
        FrameName::Read(FrameKind::Settings) => settings_parts(reading, at, payload, next),
        FrameName::CancelPush => Ok(id_parts(payload, next)),
        FrameName::Goaway => Ok(id_parts(payload, next)),
        FrameName::MaxPushId => Ok(id_parts(payload, next)),
        FrameName::PriorityUpdate => priority_parts(reading.alloc, payload, next),
        FrameName::PushPromise => promise_parts(reading, sent, at, payload, next),
        FrameName::Read(FrameKind::Data)
        | FrameName::Read(FrameKind::WebTransport)
        | FrameName::Read(FrameKind::Exercise(_))
        | FrameName::Http2
        | FrameName::Unknown => Ok(Found {
            parts: Parts::Opaque,
            after: Ok(next),
        }),
    }
}

/// Returns the field section of a HEADERS frame. It ends the reading if it is malformed.
fn headers_parts(
    reading: &mut Reading,
    sent: Option<&Insertions<'_>>,
    role: StreamRole,
    at: usize,
    payload: &[u8],
    next: Next,
) -> Result<Found, AllocError>
    ensures parts { IfOk result (λ f. HasParts (FrameName.Read FrameKind.Headers) at payload.now
        f.parts (Ok next) f.after) }
    ensures stage { IfOk result (λ f. (start : ℕ) → Leads reading.old.phase reading.new.phase
        (Takes role (FrameName.Read FrameKind.Headers) start payload.now f.parts (Ok next) f.after)
        f.after) }
    ensures sections { IfOk result (λ f. PartsWith (option_map (λ i. i.now) sent.entry) payload.now
        f.parts) }
{
    let section = read_section(reading.alloc, sent, payload)?;
    take_section(reading, role, at, &section, payload)?;
    let after = section_then(at, &section, next);
    Ok(Found {
        parts: Parts::Fields(section),
        after,
    })
}

/// Returns the settings of a SETTINGS frame. Their first fault ends the reading.
fn settings_parts(
    reading: &mut Reading,
    at: usize,
    payload: &[u8],
    next: Next,
) -> Result<Found, AllocError>
    requires { length payload.now < 2 ^ 62 }
    ensures parts { IfOk result (λ f. HasParts (FrameName.Read FrameKind.Settings) at payload.now
        f.parts (Ok next) f.after) }
    ensures phase { IfOk result (λ _. reading.new.phase ≡ reading.old.phase) }
    ensures plain { IfOk result (λ f. HasNoFields f.parts) }
{
    let settings = read_settings(reading.alloc, payload)?;
    let after = settings_then(at, reading.alloc, payload, next)?;
    if after.is_ok() {
        warn_of_settings(reading, at, settings.as_slice())?;
    }
    Ok(Found {
        parts: Parts::Settings(settings),
        after,
    })
}

/// Returns the capsules that end in the payload of a DATA frame, which begins at this place. Their
/// first fault ends the reading; without one, this follows.
#[inline(always)]
pub(super) fn data_parts(
    reading: &mut Reading,
    at: usize,
    payload: &[u8],
    on: Then,
) -> Result<Found, AllocError>
    requires { at + length payload.now < 2 ^ 64 }
    ensures parts { IfOk result (λ f. (frame : ℕ) → HasParts (FrameName.Read FrameKind.Data) frame
        payload.now f.parts on f.after) }
    ensures stage { IfOk result (λ f. Leads reading.old.phase reading.new.phase
        (TakesDataFrame at payload.now f.parts on f.after) f.after) }
    ensures plain { IfOk result (λ f. HasNoFields f.parts) }
{
    let Phase::Session(walk) = &mut reading.phase else {
        return Ok(Found {
            parts: Parts::Opaque,
            after: on,
        });
    };
    let CapsuleBatch { items, fault } = walk.add(at, payload)?;
    let is_cut = walk.pending().is_some();
    let late = late_data(&mut reading.past, payload, items.as_slice(), is_cut);
    add_warning(&mut reading.warnings, at, None, late)?;
    warn_of_values(&mut reading.warnings, at, items.as_slice())?;
    let after = match fault {
        Some(fault) => Err(End::Fault(fault)),
        None => on,
    };
    Ok(Found {
        parts: Parts::Capsules(items),
        after,
    })
}

/// Returns whether a frame is a DATA frame.
pub(super) fn is_data(number: VarInt) -> bool
    ensures { result ≡ is_data (frame_name_of number) }
{
    match FrameName::of(number) {
        FrameName::Read(FrameKind::Data) => true,
        FrameName::Read(FrameKind::Headers)
        | FrameName::Read(FrameKind::Settings)
        | FrameName::Read(FrameKind::WebTransport)
        | FrameName::Read(FrameKind::Exercise(_))
        | FrameName::CancelPush
        | FrameName::PushPromise
        | FrameName::Goaway
        | FrameName::MaxPushId
        | FrameName::PriorityUpdate
        | FrameName::Http2
        | FrameName::Unknown => false,
    }
}
