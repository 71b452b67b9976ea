//! Frames (RFC 9114, section 7).
ghost use Rattle.std.specs.Prelude.{◌≡◌, ◌≤◌, ◌<◌, ◌+◌, ◌^◌, ℕ, true, false, Some, Ok, Err};
ghost use Rattle.std.specs.Prelude.{IfOk, length, drop, option_map};
ghost use Rattle.wtp_wire.specs.Kind.{kind_of};
ghost use Rattle.wt_inspection_model.specs.Names.{frame_name_of};
ghost use Rattle.wt_inspection.specs.Resolved.{ContentWith, HasNoFields, HasNoSection, PartsWith};
ghost use Rattle.wt_inspection.specs.Walks.{Leads};
ghost use Rattle.wtp_wire.specs.Settings.{pair_at};
ghost use Rattle.wt_inspection.specs.Recording.{IsCutPart, IsNext, Judged};
ghost use Rattle.wt_inspection.specs.Recording.{JudgedCut, Moves, StopsWith, Takes, TakesCut};
ghost use Rattle.wt_inspection.specs.Recording.{TakesWhole};
ghost use Rattle.wt_inspection.specs.Recording.{is_session, name_fault, still_first};

mod contents;
mod session;
mod signals;
mod warnings;

use crate::frames::contents::{Found, data_parts, is_data, parts_of};
use crate::frames::session::session_item;
use crate::frames::warnings::warn_of_frame;
use crate::insertions::Insertions;
use crate::reading::{Next, Reading, Step, cut, fault};
use std::alloc::AllocError;
use wt_inspection_model::item::{Content, End, FrameItem, FrameName, Parts};
use wtp_core::error::ErrorCode;
use wtp_core::varint::VarInt;
use wtp_wire::frame::FrameKind;
use wtp_wire::head::{FirstPair, first_pair, missing_bytes};
use wtp_wire::rules::{StreamRole, fault_of};

/// Where a frame is, and how many bytes its type and its length have.
#[derive(Clone, Copy)]
struct Place {
    at: usize,
    head: usize,
}

/// Returns the next frame.
#[tactic(auto, using(crate::proofs::ResolvedLemmas::plain_content, crate::proofs::RecordingLemmas::no_frame_cut))]
pub(crate) fn next_frame(
    reading: &mut Reading,
    sent: Option<&Insertions<'_>>,
    role: StreamRole,
    first: bool,
    at: usize,
    rest: &[u8],
) -> Result<Step, AllocError>
    requires some { 0 < length rest.now }
    requires place { at + length rest.now < 2 ^ 64 }
    ensures within { IfOk result (λ s. s.length ≤ length rest.now) }
    ensures some { IfOk result (λ s. 0 < s.length) }
    ensures read { IfOk result (λ s. IsNext (Next.Frames role first) at rest.now s.length s.content
        s.after) }
    ensures stage { IfOk result (λ s. Leads reading.old.phase reading.new.phase
        (Moves (Ok (Next.Frames role first)) at rest.now s.content s.after) s.after) }
    ensures sections { IfOk result (λ s. ContentWith (option_map (λ i. i.now) sent.entry) rest.now
        s.content) }
{
    let Some(pair) = first_pair(rest) else {
        let end = cut(at, "frame", missing_bytes(rest) as u64);
        return Ok(Step::last(rest.len(), Content::Unread, end));
    };
    if is_session(pair.first) {
        return Ok(session_item(role, first, at, pair, rest));
    }
    let left = rest.len() - pair.size;
    if pair.second.into_inner() > left as u64 {
        return cut_frame(reading, role, first, at, pair, rest);
    }
    whole_frame(reading, sent, role, first, at, pair, rest)
}

/// Returns whether a session ID follows the type of a frame, in place of a length.
fn is_session(number: VarInt) -> bool
    ensures { result ≡ is_session (kind_of number) }
{
    match FrameKind::parse(number) {
        Some(FrameKind::WebTransport) => true,
        Some(FrameKind::Data) => false,
        Some(FrameKind::Headers) => false,
        Some(FrameKind::Settings) => false,
        Some(FrameKind::Exercise(_)) => false,
        None => false,
    }
}

/// Returns a frame whose payload the bytes cut.
fn cut_frame(
    reading: &mut Reading,
    role: StreamRole,
    first: bool,
    at: usize,
    pair: FirstPair,
    rest: &[u8],
) -> Result<Step, AllocError>
    requires within { pair.size ≤ length rest.now }
    requires some { 0 < pair.size }
    requires pair { pair_at rest.now ≡ Some ((pair.first, pair.second), drop pair.size rest.now) }
    requires kind { is_session (kind_of pair.first) ≡ false }
    requires cut { length rest.now < pair.size + pair.second }
    requires place { at + length rest.now < 2 ^ 64 }
    ensures within { IfOk result (λ s. s.length ≤ length rest.now) }
    ensures some { IfOk result (λ s. 0 < s.length) }
    ensures read { IfOk result (λ s. IsNext (Next.Frames role first) at rest.now s.length s.content
        s.after) }
    ensures stage { IfOk result (λ s. Leads reading.old.phase reading.new.phase
        (Moves (Ok (Next.Frames role first)) at rest.now s.content s.after) s.after) }
    ensures sections { IfOk result (λ s. HasNoSection s.content) }
{
    let present = rest.split_at(pair.size).1;
    let missing = pair.second.into_inner() - present.len() as u64;
    let place = Place {
        at,
        head: pair.size,
    };
    let Found { parts, after } = judged_cut(
        reading, role, first, place, pair.first, present, missing,
    )?;
    Ok(Step {
        length: rest.len(),
        content: Content::Frame(frame_of(pair, present.len(), parts)),
        after,
    })
}

/// Returns a complete frame.
fn whole_frame(
    reading: &mut Reading,
    sent: Option<&Insertions<'_>>,
    role: StreamRole,
    first: bool,
    at: usize,
    pair: FirstPair,
    rest: &[u8],
) -> Result<Step, AllocError>
    requires within { pair.size + pair.second ≤ length rest.now }
    requires place { at + length rest.now < 2 ^ 64 }
    requires some { 0 < pair.size }
    requires pair { pair_at rest.now ≡ Some ((pair.first, pair.second), drop pair.size rest.now) }
    requires kind { is_session (kind_of pair.first) ≡ false }
    ensures within { IfOk result (λ s. s.length ≤ length rest.now) }
    ensures some { IfOk result (λ s. 0 < s.length) }
    ensures read { IfOk result (λ s. IsNext (Next.Frames role first) at rest.now s.length s.content
        s.after) }
    ensures stage { IfOk result (λ s. Leads reading.old.phase reading.new.phase
        (Moves (Ok (Next.Frames role first)) at rest.now s.content s.after) s.after) }
    ensures sections { IfOk result (λ s. ContentWith (option_map (λ i. i.now) sent.entry) rest.now
        s.content) }
{
    let present = pair.second.into_inner() as usize;
    let (_, body) = rest.split_at(pair.size);
    let (payload, _) = body.split_at(present);
    let place = Place {
        at,
        head: pair.size,
    };
    let Found { parts, after } = judged_parts(
        reading, sent, role, first, place, pair.first, payload,
    )?;
    Ok(Step {
        length: pair.size + present,
        content: Content::Frame(frame_of(pair, present, parts)),
        after,
    })
}

/// Returns the item of a frame that begins with these two numbers.
fn frame_of(pair: FirstPair, present: usize, parts: Parts) -> FrameItem
    ensures { result ≡ record {
      number = pair.first;
      name = frame_name_of pair.first;
      head = pair.size;
      announced = pair.second;
      present = present;
      parts = parts;
    } }
{
    FrameItem {
        number: pair.first.into_inner(),
        name: FrameName::of(pair.first),
        head: pair.size,
        announced: pair.second.into_inner(),
        present,
        parts,
    }
}

/// Returns what a frame contains that lacks so many bytes. One that is not allowed here is not read.
fn judged_cut(
    reading: &mut Reading,
    role: StreamRole,
    first: bool,
    place: Place,
    number: VarInt,
    present: &[u8],
    missing: u64,
) -> Result<Found, AllocError>
    requires { place.at + place.head + length present.now < 2 ^ 64 }
    ensures parts { IfOk result (λ f. let name = frame_name_of number in
        JudgedCut (name_fault role first name) name place.at missing f.parts f.after) }
    ensures stage { IfOk result (λ f. let name = frame_name_of number in
        Leads reading.old.phase reading.new.phase
        (TakesCut (name_fault role first name) role name place.at missing
        (place.at + place.head) present.now f.parts f.after) f.after) }
    ensures plain { IfOk result (λ f. HasNoFields f.parts) }
{
    let at = place.at;
    if let Some(code) = name_fault(role, first, number) {
        return Ok(refused(at, code, number));
    }
    let end = cut(at, "frame", missing);
    cut_parts(reading, role, at + place.head, number, present, end)
}

/// Returns what a frame contains that is not allowed here: nothing that is read.
fn refused(at: usize, code: ErrorCode, number: VarInt) -> Found
    ensures parts { result.parts ≡ Parts.Opaque }
    ensures after { StopsWith at code result.after }
{
    let end = fault(at, code, describe(number));
    Found {
        parts: Parts::Opaque,
        after: Err(end),
    }
}

/// Returns what the present payload of a cut frame contains, which begins at this place. The
/// reading ends so, unless there is a fault before.
#[tactic(auto, using(crate::proofs::MessageLemmas::data_leads, crate::proofs::MessageLemmas::data_has, crate::proofs::MessageLemmas::opaque_leads, crate::proofs::MessageLemmas::cut_part))]
fn cut_parts(
    reading: &mut Reading,
    role: StreamRole,
    at: usize,
    number: VarInt,
    present: &[u8],
    end: End,
) -> Result<Found, AllocError>
    requires { at + length present.now < 2 ^ 64 }
    ensures parts { IfOk result (λ f. IsCutPart (frame_name_of number) f.parts (Err end) f.after) }
    ensures stage { IfOk result (λ f. Leads reading.old.phase reading.new.phase
        (Takes role (frame_name_of number) at present.now f.parts (Err end) f.after) f.after) }
    ensures plain { IfOk result (λ f. HasNoFields f.parts) }
{
    if is_data(number) {
        return data_parts(reading, at, present, Err(end));
    }
    Ok(Found {
        parts: Parts::Opaque,
        after: Err(end),
    })
}

/// Returns what a complete frame contains, and whether the reading goes on after it. A frame that
/// is not allowed here is not read.
fn judged_parts(
    reading: &mut Reading,
    sent: Option<&Insertions<'_>>,
    role: StreamRole,
    first: bool,
    place: Place,
    number: VarInt,
    payload: &[u8],
) -> Result<Found, AllocError>
    requires small { length payload.now < 2 ^ 62 }
    requires place { place.at + place.head + length payload.now < 2 ^ 64 }
    ensures parts { IfOk result (λ f. let name = frame_name_of number in
        Judged (name_fault role first name) name place.at payload.now f.parts
        (Ok (Next.Frames role (still_first first name))) f.after) }
    ensures stage { IfOk result (λ f. let name = frame_name_of number in
        Leads reading.old.phase reading.new.phase
        (TakesWhole (name_fault role first name) role name (place.at + place.head) payload.now
        f.parts (Ok (Next.Frames role (still_first first name))) f.after) f.after) }
    ensures sections { IfOk result (λ f. PartsWith (option_map (λ i. i.now) sent.entry) payload.now
        f.parts) }
{
    let at = place.at;
    if let Some(code) = name_fault(role, first, number) {
        return Ok(refused(at, code, number));
    }
    let next = Next::Frames(role, still_first(first, number));
    warn_of_frame(reading, role, at, number, payload)?;
    parts_of(reading, sent, role, place, number, payload, next)
}

/// Returns the fault of a frame of this type, if it may not be here.
fn name_fault(role: StreamRole, first: bool, number: VarInt) -> Option<ErrorCode>
    ensures { result ≡ name_fault role first (frame_name_of number) }
{
    match FrameName::of(number) {
        FrameName::Read(kind) => fault_of(role, first, kind),
        FrameName::Http2 => Some(ErrorCode::FrameUnexpected),
        FrameName::CancelPush
        | FrameName::PushPromise
        | FrameName::Goaway
        | FrameName::MaxPushId
        | FrameName::PriorityUpdate
        | FrameName::Unknown => None,
    }
}

/// Returns why a frame of this type may not be here.
fn describe(number: VarInt) -> &'static str {
    match FrameName::of(number) {
        FrameName::Http2 => "the frame type is one of HTTP/2 (RFC 9114, section 7.2.8)",
        _ => "the frame is not allowed on this stream (RFC 9114, section 7, table 1)",
    }
}

/// Returns whether the next frame would be the first after one of this type, other than unknown
/// ones.
fn still_first(first: bool, number: VarInt) -> bool
    ensures { result ≡ still_first first (frame_name_of number) }
{
    match FrameName::of(number) {
        FrameName::Read(_) => false,
        FrameName::CancelPush
        | FrameName::PushPromise
        | FrameName::Goaway
        | FrameName::MaxPushId
        | FrameName::PriorityUpdate
        | FrameName::Http2
        | FrameName::Unknown => first,
    }
}
