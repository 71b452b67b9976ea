//! Frames that are not allowed by a rule that the library does not check.
ghost use Rattle.std.specs.Prelude.{◌≡◌, IfOk};

use crate::capsules::reads_as_capsules;
use crate::frames::signals::only_varint;
use crate::message::judge::Judge;
use crate::past::Past;
use crate::reading::{Phase, Reading};
use std::alloc::AllocError;
use wt_inspection_model::item::{CapsuleItem, FrameName, Rule};
use wtp_core::varint::{VarInt, first_varint};
use wtp_wire::frame::FrameKind;
use wtp_wire::rules::StreamRole;

/// Adds warnings if a complete frame is not allowed here, or has the wrong contents, by rules that
/// the library does not check.
pub(crate) fn warn_of_frame(
    reading: &mut Reading,
    role: StreamRole,
    at: usize,
    number: VarInt,
    payload: &[u8],
) -> Result<(), AllocError>
    ensures { IfOk result (λ _. reading.new.phase ≡ reading.old.phase) }
{
    let misplaced = if role == StreamRole::UniRemote {
        control_warning(&mut reading.past, FrameName::of(number))
    } else {
        request_warning(reading, role, FrameName::of(number))
    };
    reading.warn(at, misplaced)?;
    let faulty = contents_warning(&mut reading.past, number, payload);
    reading.warn(at, faulty)?;
    let too_long = content_warning(reading, role, number, payload);
    reading.warn(at, too_long)?;
    let hint = hint_of(reading, at, FrameName::of(number), payload);
    reading.warn(at, hint)
}

/// Returns what is wrong with a frame on a control stream.
fn control_warning(past: &mut Past, name: FrameName) -> Option<Rule> {
    let saw_control_frame = past.saw_control_frame;
    let saw_settings = past.saw_settings;
    past.saw_control_frame = true;
    match name {
        FrameName::Read(FrameKind::Settings) if saw_settings => { Some(Rule::RepeatedSettings) }
        FrameName::Read(FrameKind::Settings) => {
            past.saw_settings = true;
            None
        }
        FrameName::PushPromise => { Some(Rule::PromiseOnControlStream) }
        _ if !saw_control_frame => Some(Rule::MissingSettings),
        _ => None,
    }
}

/// Returns what is wrong with a frame on the stream of a request.
fn request_warning(reading: &Reading, role: StreamRole, name: FrameName) -> Option<Rule> {
    match name {
        FrameName::Read(FrameKind::Data) => data_warning(reading),
        FrameName::Read(FrameKind::Headers) => headers_warning(reading),
        FrameName::CancelPush
        | FrameName::Goaway
        | FrameName::MaxPushId
        | FrameName::PriorityUpdate => { Some(Rule::ControlFrame) }
        FrameName::PushPromise if role == StreamRole::BiRemote => { Some(Rule::PromiseOfClient) }
        FrameName::PushPromise if reading.past.is_tunnel => Some(Rule::InTunnel),
        _ => None,
    }
}

/// Returns what is wrong with the place of a DATA frame.
fn data_warning(reading: &Reading) -> Option<Rule> {
    if matches!(reading.phase, Phase::Opening) {
        return Some(Rule::EarlyData);
    }
    if reading.past.saw_trailers {
        return Some(Rule::LateData);
    }
    None
}

/// Returns what is wrong with the place of a HEADERS frame.
fn headers_warning(reading: &Reading) -> Option<Rule> {
    if matches!(reading.phase, Phase::Opening) {
        return None;
    }
    if reading.past.is_tunnel {
        return Some(Rule::InTunnel);
    }
    if reading.past.saw_trailers {
        return Some(Rule::LateHeaders);
    }
    None
}

/// Returns what is wrong with the length of the content of a message, with this frame.
fn content_warning(
    reading: &mut Reading,
    role: StreamRole,
    number: VarInt,
    payload: &[u8],
) -> Option<Rule>
    ensures { reading.new.phase ≡ reading.old.phase }
{
    if role == StreamRole::UniRemote {
        return None;
    }
    let mut judge = reading.past.judge.unwrap_or(Judge::new(role));
    let mut broken = None;
    if FrameName::of(number) == FrameName::Read(FrameKind::Data) {
        if matches!(reading.phase, Phase::Opening) {
            // DATA before HEADERS is reported as such
            judge.stop();
        } else {
            broken = judge.data(payload.len() as u64);
        }
    }
    reading.past.judge = Some(judge);
    broken
}

/// Returns what is wrong with the contents of a frame about requests and pushes.
fn contents_warning(past: &mut Past, number: VarInt, payload: &[u8]) -> Option<Rule> {
    match FrameName::of(number) {
        FrameName::CancelPush | FrameName::Goaway | FrameName::MaxPushId => {
            let Some(id) = only_varint(payload) else {
                return Some(Rule::BadIdFrame);
            };
            id_warning(past, FrameName::of(number), id)
        }
        FrameName::PriorityUpdate => priority_warning(number, payload),
        FrameName::PushPromise if first_varint(payload).is_none() => { Some(Rule::ShortPromise) }
        _ => None,
    }
}

/// Returns what is wrong with the ID of a GOAWAY or MAX_PUSH_ID frame, after earlier ones.
fn id_warning(past: &mut Past, name: FrameName, id: VarInt) -> Option<Rule> {
    match name {
        FrameName::Goaway => {
            let before = past.goaway.replace(id);
            if before.is_some_and(|before| id > before) {
                return Some(Rule::GrowingGoaway);
            }
            None
        }
        FrameName::MaxPushId => {
            let before = past.max_push.replace(id);
            if before.is_some_and(|before| id < before) {
                return Some(Rule::ShrinkingMaxPushId);
            }
            None
        }
        _ => None,
    }
}

/// The type of PRIORITY_UPDATE for a request (RFC 9218, section 7.2).
const REQUEST_PRIORITY: u64 = 0xf_0700;

/// Returns what is wrong with the contents of a PRIORITY_UPDATE frame.
fn priority_warning(number: VarInt, payload: &[u8]) -> Option<Rule> {
    let Some((id, _)) = first_varint(payload) else {
        return Some(Rule::ShortPriority);
    };
    if number.into_inner() == REQUEST_PRIORITY && id.into_inner() % 4 != 0 {
        return Some(Rule::PriorityOfNoRequest);
    }
    None
}

/// Returns a hint that the bytes are of another kind than the one that was named, or that DATA
/// frames contain capsules though no field says so.
fn hint_of(reading: &mut Reading, at: usize, name: FrameName, payload: &[u8]) -> Option<Rule>
    ensures { reading.new.phase ≡ reading.old.phase }
{
    if name != FrameName::Read(FrameKind::Data) {
        return None;
    }
    if at == 0 && payload.len() == 4 {
        return Some(Rule::LikeControlStream);
    }
    if !reading.past.may_have_capsules {
        return None;
    }
    reading.past.may_have_capsules = false;
    if !reads_as_capsules(payload) {
        return None;
    }
    Some(Rule::LikeCapsules)
}

/// Returns whether bytes follow the close of a session: these of a DATA frame, in which these
/// capsules end and, if `is_cut`, another one begins.
pub(super) fn late_data(
    past: &mut Past,
    payload: &[u8],
    items: &[CapsuleItem],
    is_cut: bool,
) -> Option<Rule> {
    let was_closed = past.is_closed;
    let Some(place) = items.iter().position(|item| item.close.is_some()) else {
        return if was_closed && !payload.is_empty() {
            Some(Rule::DataAfterClose)
        } else {
            None
        };
    };
    past.is_closed = true;
    if was_closed || is_cut || items.len() > place.saturating_add(1) {
        Some(Rule::DataAfterClose)
    } else {
        None
    }
}
