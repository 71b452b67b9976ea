//! What is heard on a stream.
ghost use Rattle.std.specs.Prelude.{◌≡◌, ◌≤◌, length, vec_capacity, vec_len};
ghost use Rattle.wtp_webtransport.specs.Events.{told_of};
ghost use Rattle.vesgrauf_stream.specs.Reading.{bytes_of, told_in, piece_of, without_payload};

use crate::bytes::Bytes;
use wtp_frames::frame_type::FrameType;
use wtp_webtransport::event::Event;

/// What is heard on a stream. It borrows from the input alone.
#[derive(Drop)]
pub enum Heard<'a> {
    /// A piece of the content of a message, of at least one byte.
    Data(Bytes<'a>),
    /// A piece of a stream of a session, of at least one byte.
    StreamData(Bytes<'a>),
    /// A frame of the control stream other than SETTINGS and GOAWAY: its type and its payload.
    Frame(FrameType, Bytes<'a>),
    /// What has no bytes of the stream. SETTINGS come without their payload.
    Event(Event<'static>),
}

// Returns what an event says. Its bytes are those of the input.
pub(crate) fn heard_in<'a>(event: Event<'a>) -> Heard<'a>
    ensures { told_in result ≡ without_payload (told_of event.entry) }
{
    let piece = piece_in(&event);
    heard_with(event, Bytes::Input(piece))
}

// Returns what an event says. Its bytes are copied to `room`, which has the capacity for them.
pub(crate) fn kept_from(event: Event<'_>, mut room: Vec<u8>) -> Heard<'static>
    requires empty { vec_len room ≡ 0 }
    requires room { length (piece_of (told_of event)) ≤ vec_capacity room }
    ensures { told_in result ≡ without_payload (told_of event.entry) }
{
    let piece = piece_in(&event);
    let copied = room.extend_from_slice(piece);
    prove!(copied.is_ok());
    heard_with(event, Bytes::Kept(room))
}

// Returns the bytes of the stream to which an event refers, but for the payload of SETTINGS.
fn piece_in<'a>(event: &Event<'a>) -> &'a [u8]
    ensures { result.now ≡ piece_of (told_of event.now) }
{
    match event {
        Event::Data(piece) => *piece,
        Event::StreamData(piece) => *piece,
        Event::Frame(_, payload) => *payload,
        _ => &[],
    }
}

// Returns what an event says, to whose bytes `bytes` are equal.
fn heard_with<'a>(event: Event<'_>, bytes: Bytes<'a>) -> Heard<'a>
    requires { bytes_of bytes ≡ piece_of (told_of event) }
    ensures { told_in result ≡ without_payload (told_of event.entry) }
{
    match event {
        Event::Data(_) => Heard::Data(bytes),
        Event::StreamData(_) => Heard::StreamData(bytes),
        Event::Frame(kind, _) => Heard::Frame(kind, bytes),
        Event::Settings(settings, _) => Heard::Event(Event::Settings(settings, &[])),
        Event::Opened(purpose) => Heard::Event(Event::Opened(purpose)),
        Event::Joins(session) => Heard::Event(Event::Joins(session)),
        Event::Joined(session) => Heard::Event(Event::Joined(session)),
        Event::Inserted(count) => Heard::Event(Event::Inserted(count)),
        Event::GoAway(id) => Heard::Event(Event::GoAway(id)),
        Event::Headers(kind, list) => Heard::Event(Event::Headers(kind, list)),
        Event::SessionRequested(list) => Heard::Event(Event::SessionRequested(list)),
        Event::SessionReady(status, list) => Heard::Event(Event::SessionReady(status, list)),
        Event::Rejected(status, list) => Heard::Event(Event::Rejected(status, list)),
        Event::SessionClosed(close) => Heard::Event(Event::SessionClosed(close)),
        Event::SessionLost => Heard::Event(Event::SessionLost),
        Event::Datagram(payload) => Heard::Event(Event::Datagram(payload)),
        Event::Draining => Heard::Event(Event::Draining),
        Event::Skipped => Heard::Event(Event::Skipped),
        Event::TooLarge(size) => Heard::Event(Event::TooLarge(size)),
        Event::Malformed(rule) => Heard::Event(Event::Malformed(rule)),
        Event::StreamError(fault) => Heard::Event(Event::StreamError(fault)),
        Event::ConnectionError(fault) => Heard::Event(Event::ConnectionError(fault)),
        Event::Reset(fault) => Heard::Event(Event::Reset(fault)),
        Event::End => Heard::Event(Event::End),
        Event::NoMemory => Heard::Event(Event::NoMemory),
        Event::Waits(wait) => Heard::Event(Event::Waits(wait)),
        Event::More => Heard::Event(Event::More),
    }
}
