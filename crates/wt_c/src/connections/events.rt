//! The events of a connection as a struct.
ghost use Rattle.std.specs.Prelude.{◌≡◌, ◌-◌, length};
ghost use Rattle.wtp_webtransport.specs.Events.{told_of};
ghost use Rattle.wt_c.specs.ConnectionEvents.{plain, with_bytes, purpose_number, frame_number, rule_number, wait_number, wait_session, headers_event, c_event, whole_event, told_within};

use crate::connections::beside::room_of;
use wtp_connection::stream::Purpose;
use wtp_frames::frame_type::FrameType;
use wtp_messages::malformed::Malformed;
use wtp_webtransport::event::{Event, HeadersKind, Waits};

/// An event.
#[repr(C)]
#[derive(Clone, Copy)]
pub struct WtEvent {
    /// What it is.
    pub kind: u32,
    /// More of it, by its kind.
    pub detail: u32,
    /// A session ID, an error code, a status or a size, by its kind.
    pub number: u64,
    /// How many bytes are consumed with it.
    pub consumed: usize,
    /// The offset of its bytes.
    pub offset: usize,
    /// Their length.
    pub len: usize,
    /// How many fields it has.
    pub count: usize,
    /// The length of their texts, or of its other bytes outside of the input.
    pub used: usize,
    /// How many bytes are held after it.
    pub kept: usize,
    /// 0.
    pub reserved: [u64; 4],
}

impl WtEvent {
    // Creates an event without bytes.
    pub(crate) fn plain(kind: u32, detail: u32, number: u64) -> Self
        ensures { result ≡ plain kind detail number }
    {
        WtEvent {
            kind,
            detail,
            number,
            consumed: 0,
            offset: 0,
            len: 0,
            count: 0,
            used: 0,
            kept: 0,
            reserved: [0; 4],
        }
    }

    // Creates the event of a datagram of this session.
    pub(crate) fn of_datagram(session: u64, payload: &[u8], end: usize) -> Self
        ensures { result ≡ record (with_bytes 14 1 payload.now end) { number = session } }
    {
        let mut event = WtEvent::with(14, 1, payload, end);
        event.number = session;
        event
    }

    // Creates an event with these bytes, which are the last of so many.
    fn with(kind: u32, detail: u32, bytes: &[u8], end: usize) -> Self
        ensures { result ≡ with_bytes kind detail bytes.now end }
    {
        let mut event = WtEvent::plain(kind, detail, 0);
        event.offset = end.saturating_sub(bytes.len());
        event.len = bytes.len();
        event
    }
}

impl WtEvent {
    // Creates the event with which so many bytes are consumed, and after which so many are held.
    pub(crate) fn whole(event: &Event<'_>, consumed: usize, kept: usize) -> Self
        ensures { result ≡ whole_event (told_of event.now) consumed kept }
    {
        let (count, used) = room_of(event);
        let mut whole = event_of(event, consumed);
        whole.consumed = consumed;
        whole.count = count;
        whole.used = used;
        whole.kept = kept;
        whole
    }

    // Creates the event of a change of a stream, after which so many bytes are held.
    pub(crate) fn of_change(event: &Event<'_>, kept: usize) -> Self
        ensures { result ≡ record (c_event (told_of event.now) 0) { kept = kept } }
    {
        let mut changed = event_of(event, 0);
        changed.kept = kept;
        changed
    }
}

// Returns the number of a purpose.
fn purpose_of(purpose: Purpose) -> u32
    ensures { result ≡ purpose_number purpose }
{
    match purpose {
        Purpose::Control => 0,
        Purpose::Push => 1,
        Purpose::Encoder => 2,
        Purpose::Decoder => 3,
        Purpose::Session(_) => 4,
        Purpose::InvalidSession => 5,
        Purpose::Message => 6,
        Purpose::Foreign => 7,
        Purpose::Ignored => 8,
    }
}

// Returns the number of a frame's type.
fn frame_of(kind: FrameType) -> u32
    ensures { result ≡ frame_number kind }
{
    match kind {
        FrameType::Data => 0x00,
        FrameType::Headers => 0x01,
        FrameType::CancelPush => 0x03,
        FrameType::Settings => 0x04,
        FrameType::PushPromise => 0x05,
        FrameType::GoAway => 0x07,
        FrameType::MaxPushId => 0x0d,
        FrameType::WebTransport => 0x41,
        FrameType::Http2 | FrameType::Unknown => 0xffff_ffff,
    }
}

// Returns the number of a rule that a message breaks.
pub(crate) fn rule_of(rule: Malformed) -> u32
    ensures { result ≡ rule_number rule }
{
    match rule {
        Malformed::InvalidName => 1,
        Malformed::InvalidValue => 2,
        Malformed::ConnectionField => 3,
        Malformed::InvalidTe => 4,
        Malformed::UnknownPseudoHeader => 5,
        Malformed::LatePseudoHeader => 6,
        Malformed::RepeatedPseudoHeader => 7,
        Malformed::InvalidContentLength => 8,
        Malformed::MissingMethod => 9,
        Malformed::InvalidMethod => 10,
        Malformed::MissingScheme => 11,
        Malformed::InvalidScheme => 12,
        Malformed::MissingPath => 13,
        Malformed::InvalidPath => 14,
        Malformed::MissingAuthority => 15,
        Malformed::InvalidAuthority => 16,
        Malformed::ConnectWithTarget => 17,
        Malformed::UnexpectedProtocol => 18,
        Malformed::InvalidProtocol => 19,
        Malformed::ContentField => 20,
        Malformed::MissingStatus => 21,
        Malformed::InvalidStatus => 22,
        Malformed::UnexpectedStatus => 23,
        Malformed::MissingHead => 24,
        Malformed::ContentTooLong => 25,
        Malformed::ContentTooShort => 26,
    }
}

// Returns the number of what a stream waits for, and the session, or how many insertions.
pub(crate) fn waits_of(waits: Option<Waits>) -> (u32, u64)
    ensures { result ≡ (wait_number waits, wait_session waits) }
{
    match waits {
        None => (0, 0),
        Some(Waits::Session(session)) => (1, session),
        Some(Waits::Settings) => (2, 0),
        Some(Waits::Answer) => (3, 0),
        Some(Waits::Table(required)) => (4, required),
    }
}

// Returns the event of a stream that waits.
fn waiting(waits: Waits) -> WtEvent
    ensures { result ≡ plain 1 (wait_number (Some waits)) (wait_session (Some waits)) }
{
    let (number, session) = waits_of(Some(waits));
    WtEvent::plain(1, number, session)
}

// Returns the event of a field section.
fn headers_of(kind: HeadersKind) -> WtEvent
    ensures { result ≡ headers_event kind }
{
    match kind {
        HeadersKind::Request => WtEvent::plain(8, 0, 0),
        HeadersKind::Interim(status) => WtEvent::plain(8, 1, status as u64),
        HeadersKind::Response(status) => WtEvent::plain(8, 2, status as u64),
        HeadersKind::Trailers => WtEvent::plain(8, 3, 0),
    }
}

// Returns the event with which so many bytes are consumed.
pub(crate) fn event_of(event: &Event<'_>, consumed: usize) -> WtEvent
    ensures { result ≡ c_event (told_of event.now) consumed }
{
    match event {
        Event::More => WtEvent::plain(0, 0, 0),
        Event::Waits(waits) => waiting(*waits),
        Event::Opened(purpose) => WtEvent::plain(2, purpose_of(*purpose), 0),
        Event::Joins(session) => WtEvent::plain(3, 0, *session),
        Event::Joined(session) => WtEvent::plain(4, 0, *session),
        Event::Settings(_, payload) => WtEvent::with(5, 0, payload, consumed),
        Event::GoAway(id) => WtEvent::plain(6, 0, *id),
        Event::Frame(kind, payload) => WtEvent::with(7, frame_of(*kind), payload, consumed),
        Event::Headers(kind, _) => headers_of(*kind),
        Event::SessionRequested(_) => WtEvent::plain(9, 0, 0),
        Event::SessionReady(status, _) => WtEvent::plain(10, 0, *status as u64),
        Event::Rejected(status, _) => WtEvent::plain(11, 0, *status as u64),
        Event::SessionClosed(close) => WtEvent::plain(12, 0, close.code() as u64),
        Event::SessionLost => WtEvent::plain(13, 0, 0),
        Event::Datagram(_) => WtEvent::plain(14, 0, 0),
        Event::Draining => WtEvent::plain(15, 0, 0),
        Event::Skipped => WtEvent::plain(16, 0, 0),
        Event::Data(piece) => WtEvent::with(17, 0, piece, consumed),
        Event::StreamData(piece) => WtEvent::with(18, 0, piece, consumed),
        Event::TooLarge(Some(size)) => WtEvent::plain(19, 1, *size),
        Event::TooLarge(None) => WtEvent::plain(19, 0, 0),
        Event::Malformed(rule) => WtEvent::plain(20, rule_of(*rule), 0x010e),
        Event::StreamError(fault) => WtEvent::plain(21, 0, fault.code().number().into_inner()),
        Event::ConnectionError(fault) => WtEvent::plain(22, 0, fault.code().number().into_inner()),
        Event::Reset(Some(fault)) => WtEvent::plain(23, 1, fault.code().number().into_inner()),
        Event::Reset(None) => WtEvent::plain(23, 0, 0),
        Event::End => WtEvent::plain(24, 0, 0),
        Event::NoMemory => WtEvent::plain(25, 0, 0),
        Event::Inserted(count) => WtEvent::plain(26, 0, *count),
    }
}

// Returns the event, or that the bytes had nothing for the application in place of a datagram that
// is longer than the limit.
pub(crate) fn within(event: Event<'_>, max_datagram: u64) -> Event<'_>
    ensures { told_of result ≡ told_within max_datagram (told_of event.entry) }
{
    match event {
        Event::Datagram(payload) => {
            if payload.len() as u64 > max_datagram {
                return Event::Skipped;
            }
            Event::Datagram(payload)
        }
        other => other,
    }
}
