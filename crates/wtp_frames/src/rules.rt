//! What a stream does with a frame, by its place in the stream (RFC 9114, sections 4.1, 6.2.1 and
//! 7.2).
ghost use Rattle.std.specs.Prelude.{◌≡◌, Some};
ghost use Rattle.wtp_frames.specs.Rules.{action_of, after_trailers, in_tunnel as in_tunnel_is, data_frame as data_frame_is, after_settings as after_settings_is, promised as promised_is, without_content as without_content_is, webtransport as webtransport_is, section as section_is, number_frame as number_frame_is, accepted, one_number, with_number, not_above as not_above_is, not_below as not_below_is, after_section as after_section_is};

use crate::endpoint::{Endpoint, Side};
use crate::fault::Fault;
use crate::frame_type::FrameType;
use crate::reader::Place;
use wtp_core::varint::first_varint;

/// What a stream does with a frame.
#[derive(Clone, Copy)]
pub(crate) enum Action {
    /// Its payload is returned whole.
    Give,
    /// Its payload is returned as it arrives.
    Stream,
    /// Its payload is skipped.
    Skip,
    /// It is a field section that is too large: its size is returned, and its payload is skipped.
    SkipSection,
    /// It is an error.
    Refuse(Fault),
}

/// The largest SETTINGS payload, in bytes.
const MAX_SETTINGS: u64 = 4096;

/// The largest payload of a frame that is one number, in bytes.
const MAX_NUMBER: u64 = 8;

/// The largest number of frames without content that may follow one another on a message's stream.
pub(crate) const MAX_IDLE: u32 = 1024;

/// Returns what a stream does with a frame of this type and length, after `idle` frames without
/// content.
pub(crate) fn action_for(
    endpoint: Endpoint,
    place: Place,
    idle: u32,
    kind: FrameType,
    len: u64,
) -> Action
    ensures { result ≡ action_of endpoint place idle kind len }
{
    match place {
        Place::BeforeHeaders => match kind {
            FrameType::Headers => section(endpoint, len),
            _ => anywhere(endpoint, idle, kind),
        },
        Place::Body => match kind {
            FrameType::Headers => section(endpoint, len),
            FrameType::Data => data_frame(idle, len),
            _ => anywhere(endpoint, idle, kind),
        },
        Place::AfterTrailers => anywhere(endpoint, idle, kind),
        Place::Tunnel => in_tunnel(endpoint, idle, kind, len),
        Place::BeforeSettings => match kind {
            FrameType::Settings => {
                if len > MAX_SETTINGS {
                    Action::Refuse(Fault::ExcessiveLoad)
                } else {
                    Action::Give
                }
            }
            _ => Action::Refuse(Fault::MissingSettings),
        },
        Place::AfterSettings(_, _) => after_settings(endpoint, kind, len),
        Place::Failed(fault) => Action::Refuse(fault),
    }
}

// What any place of a message does with the types that have no place of their own.
fn anywhere(endpoint: Endpoint, idle: u32, kind: FrameType) -> Action
    ensures { result ≡ after_trailers endpoint idle kind }
{
    match kind {
        FrameType::Unknown => without_content(idle, Action::Skip),
        FrameType::WebTransport => { webtransport(endpoint, without_content(idle, Action::Skip)) }
        FrameType::PushPromise => promised(endpoint.side),
        _ => Action::Refuse(Fault::FrameUnexpected),
    }
}

// A CONNECT request that was answered with a 2xx status has DATA alone (RFC 9114, section 4.4).
fn in_tunnel(endpoint: Endpoint, idle: u32, kind: FrameType, len: u64) -> Action
    ensures { result ≡ in_tunnel_is endpoint idle kind len }
{
    match kind {
        FrameType::Data => data_frame(idle, len),
        FrameType::PushPromise => Action::Refuse(Fault::FrameUnexpected),
        _ => anywhere(endpoint, idle, kind),
    }
}

fn data_frame(idle: u32, len: u64) -> Action
    ensures { result ≡ data_frame_is idle len }
{
    if len == 0 {
        without_content(idle, Action::Stream)
    } else {
        Action::Stream
    }
}

fn after_settings(endpoint: Endpoint, kind: FrameType, len: u64) -> Action
    ensures { result ≡ after_settings_is endpoint kind len }
{
    match kind {
        FrameType::GoAway | FrameType::CancelPush => number_frame(len),
        FrameType::MaxPushId => match endpoint.side {
            Side::Server => number_frame(len),
            Side::Client => Action::Refuse(Fault::FrameUnexpected),
        },
        FrameType::Unknown => Action::Skip,
        FrameType::WebTransport => webtransport(endpoint, Action::Skip),
        _ => Action::Refuse(Fault::FrameUnexpected),
    }
}

// No push was allowed, so a client knows no push ID (RFC 9114, section 7.2.5).
fn promised(side: Side) -> Action
    ensures { result ≡ promised_is side }
{
    match side {
        Side::Client => Action::Refuse(Fault::Id),
        Side::Server => Action::Refuse(Fault::FrameUnexpected),
    }
}

fn without_content(idle: u32, action: Action) -> Action
    ensures { result ≡ without_content_is idle action }
{
    if idle < MAX_IDLE {
        action
    } else {
        Action::Refuse(Fault::ExcessiveLoad)
    }
}

fn webtransport(endpoint: Endpoint, unknown: Action) -> Action
    ensures { result ≡ webtransport_is endpoint unknown }
{
    if endpoint.webtransport {
        Action::Refuse(Fault::Frame)
    } else {
        unknown
    }
}

fn section(endpoint: Endpoint, len: u64) -> Action
    ensures { result ≡ section_is endpoint len }
{
    if len > u64::from(endpoint.max_section) {
        Action::SkipSection
    } else {
        Action::Give
    }
}

fn number_frame(len: u64) -> Action
    ensures { result ≡ number_frame_is len }
{
    if len > MAX_NUMBER {
        Action::Refuse(Fault::Frame)
    } else {
        Action::Give
    }
}

/// Returns how far the stream went with a frame of this type and payload, or its error.
pub(crate) fn accept(
    side: Side,
    place: Place,
    kind: FrameType,
    payload: &[u8],
) -> Result<Place, Fault>
    ensures { result ≡ accepted side place kind payload.now }
{
    match place {
        Place::BeforeHeaders => Ok(Place::Body),
        Place::Body => Ok(Place::AfterTrailers),
        Place::AfterTrailers | Place::Tunnel => Err(Fault::FrameUnexpected),
        Place::BeforeSettings => Ok(Place::AfterSettings(None, None)),
        Place::AfterSettings(goaway, push) => match number_alone(payload) {
            None => Err(Fault::Frame),
            Some(number) => accept_number(side, goaway, push, kind, number),
        },
        Place::Failed(fault) => Err(fault),
    }
}

/// Returns how far the stream went with HEADERS that are skipped.
pub(crate) fn after_section(place: Place) -> Place
    ensures { result ≡ after_section_is place }
{
    match place {
        Place::BeforeHeaders => Place::Body,
        Place::Body => Place::AfterTrailers,
        other => other,
    }
}

fn accept_number(
    side: Side,
    goaway: Option<u64>,
    push: Option<u64>,
    kind: FrameType,
    number: u64,
) -> Result<Place, Fault>
    ensures { result ≡ with_number side goaway push kind (Some number) }
{
    match kind {
        FrameType::GoAway => match side {
            Side::Client => {
                if number % 4 == 0 {
                    not_above(goaway, number, push)
                } else {
                    Err(Fault::Id)
                }
            }
            Side::Server => not_above(goaway, number, push),
        },
        FrameType::MaxPushId => not_below(goaway, push, number),
        _ => Err(Fault::Id),
    }
}

fn not_above(goaway: Option<u64>, number: u64, push: Option<u64>) -> Result<Place, Fault>
    ensures { result ≡ not_above_is goaway number push }
{
    match goaway {
        None => Ok(Place::AfterSettings(Some(number), push)),
        Some(last) => {
            if last < number {
                Err(Fault::Id)
            } else {
                Ok(Place::AfterSettings(Some(number), push))
            }
        }
    }
}

fn not_below(goaway: Option<u64>, push: Option<u64>, number: u64) -> Result<Place, Fault>
    ensures { result ≡ not_below_is goaway push number }
{
    match push {
        None => Ok(Place::AfterSettings(goaway, Some(number))),
        Some(last) => {
            if number < last {
                Err(Fault::Id)
            } else {
                Ok(Place::AfterSettings(goaway, Some(number)))
            }
        }
    }
}

/// Returns the number that the payload is, if it is one.
#[tactic(auto, unfolding(crate::specs::Rules::one_number), using(crate::proofs::NumberLemmas::alone_by_size))]
fn number_alone(payload: &[u8]) -> Option<u64>
    ensures { result ≡ one_number payload.now }
{
    match first_varint(payload) {
        None => None,
        Some((number, size)) => {
            if size < payload.len() {
                None
            } else {
                Some(number.into_inner())
            }
        }
    }
}
