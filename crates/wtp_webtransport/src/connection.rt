//! What the streams of a connection have in common, and what is next on each of them.
ghost use Rattle.std.specs.Prelude.{◌≡◌, ◌≤◌, length};
ghost use Rattle.wtp_connection.specs.Receiving.{Fits};
ghost use Rattle.wtp_webtransport.specs.Events.{told_of};
ghost use Rattle.wtp_webtransport.specs.Receiving.{Receives, FoundGives, closed_by, fails, found_opened, goaway_found, last_in, malformed as malformed_is, told_more};
ghost use Rattle.wtp_webtransport.specs.Tables.{Call};
ghost use Rattle.wtp_webtransport.specs.Streams.{connection_of, resuming_connection, without_early_data, accepted, request_stream, after_error, is_unprocessed_by};

mod ahead;
pub(crate) mod messages;
mod sections;
mod sessions;
mod streams;
mod table;
pub mod words;

use crate::event::{Event, Received, Waits};
use crate::fault::Fault;
use crate::fields::Fields;
use crate::stream::{Due, Part, Stream, Unread};
use crate::unacknowledged::Unacknowledged;
use wtp_connection::connection::{Connection as Streams, Found};
use wtp_connection::settings::PeerSettings;
use wtp_connection::stream::{Purpose, Stream as Frames};
use wtp_core::error::ErrorScope;
use wtp_core::varint::first_varint;
use wtp_dynamic_decoder::decoder::QpackDecoder;
use wtp_frames::endpoint::{Endpoint, Side};
use wtp_frames::frame_type::FrameType;
use wtp_messages::malformed::Malformed;
use wtp_messages::message::Role;
use wtp_messages::response::Asked;

/// What the streams of a connection have in common.
#[derive(Drop)]
pub struct Connection {
    /// Their frames.
    streams: Streams,
    /// The receiving endpoint.
    endpoint: Endpoint,
    /// Whether this endpoint allows extended CONNECT (RFC 8441, section 3).
    extended: bool,
    /// Whether SETTINGS of the peer came.
    configured: bool,
    /// The ID in the last GOAWAY of the peer.
    goaway: Option<u64>,
    /// Whether an error ended the connection.
    over: bool,
    /// The dynamic table of QPACK, if the own SETTINGS allow one.
    decoder: Option<QpackDecoder>,
    /// The section that the last call read with the table, until it is acknowledged.
    read: Option<Unacknowledged>,
}

impl Connection {
    /// Creates a connection. `extended`: the own SETTINGS allow extended CONNECT, which sessions of
    /// WebTransport need (RFC 9220, section 3). A client that sends early data (0-RTT) creates it by
    /// [`resuming`](Self::resuming).
    pub fn new(endpoint: Endpoint, extended: bool) -> Self
        ensures { result ≡ connection_of endpoint extended }
    {
        Connection {
            streams: Streams::new(endpoint),
            endpoint,
            extended,
            configured: false,
            goaway: None,
            over: false,
            decoder: None,
            read: None,
        }
    }

    /// Creates the connection of a client that resumes a session of TLS and sends 0-RTT data.
    /// `remembered` are the settings of the server in that session: they are its settings until its
    /// SETTINGS come, which must keep them (RFC 9114, section 7.2.4.2). If the server does not accept
    /// 0-RTT, call [`early_data_refused`](Self::early_data_refused). At a server this is
    /// [`new`](Self::new).
    ///
    /// Sessions of WebTransport are possible once SETTINGS came: a request for one is not sent as early
    /// data (RFC 8470, section 4).
    pub fn resuming(endpoint: Endpoint, extended: bool, remembered: &PeerSettings) -> Self
        ensures { result ≡ resuming_connection endpoint extended remembered.now }
    {
        Connection {
            streams: Streams::resuming(endpoint, remembered),
            endpoint,
            extended,
            configured: false,
            goaway: None,
            over: false,
            decoder: None,
            read: None,
        }
    }

    /// Says that the server did not accept 0-RTT: until its SETTINGS come each setting has its default
    /// again, and they need not keep what is remembered. Nothing changes after its SETTINGS, and if no
    /// session is resumed.
    pub fn early_data_refused(&mut self)
        ensures { self.new ≡ without_early_data self.old }
    {
        self.streams.early_data_refused();
    }

    /// Creates the state of a stream that the peer opened, by its ID (RFC 9000, section 2.1).
    pub fn accept(&mut self, id: u64) -> Stream
        ensures { (self.new, result) ≡ accepted self.old id }
    {
        Stream::new(self.streams.accept(id))
    }

    /// Creates the state of the peer's half of a request stream that was opened here, by what the
    /// request asks for.
    pub fn open(&self, asked: Asked) -> Stream
        ensures { result ≡ request_stream self.now.endpoint asked }
    {
        Stream::of_response(Frames::of_request(self.endpoint), asked)
    }

    /// Returns the settings of the peer. Until its SETTINGS come each one has its default, or the value
    /// that is remembered of the session that is [resumed](Self::resuming) (RFC 9114, section 7.2.4.2).
    pub fn peer_settings(&self) -> PeerSettings
        ensures { result ≡ self.now.streams.peer }
    {
        self.streams.peer_settings()
    }

    /// Returns, at a client, whether a request with this ID is not processed by the server, since its
    /// GOAWAY names the ID of this request or of one before it. It may be sent again on another
    /// connection (RFC 9114, section 5.2).
    pub fn is_unprocessed(&self, id: u64) -> bool
        ensures { result ≡ is_unprocessed_by self.now.endpoint.side self.now.goaway id }
    {
        match (self.endpoint.side, self.goaway) {
            (Side::Client, Some(first)) => id >= first,
            _ => false,
        }
    }

    /// Returns whether an error ended the connection: [`receive`](Self::receive) then says nothing more.
    pub fn is_over(&self) -> bool
        ensures { result ≡ self.now.over }
    {
        self.over
    }

    /// Returns what is next in the bytes of a stream that follow those consumed before. `fin`: the
    /// stream ends right after `bytes`. Call it until [`Event::More`] or [`Event::Waits`].
    ///
    /// Bytes of the encoder stream go to the dynamic table, if the connection
    /// [has one](Self::allow_table): the event is [`Event::Inserted`]. After each call
    /// [`acknowledge`](Self::acknowledge) writes what is due for it.
    ///
    /// After `More` and `NoMemory` the bytes that were not consumed are to be passed again, after
    /// `More` with more bytes after them. After `Waits` they are to be passed again when the wait is
    /// over. With an error all bytes are consumed. After an error of the connection every call
    /// consumes all bytes of every stream and returns `More`.
    ///
    /// How many bytes wait is not bounded: say of a stream of which more wait than you keep that it
    /// [overflows](Self::overflow).
    #[tactic(auto, using(crate::proofs::TableLemmas::call_read))]
    pub fn receive<'a>(
        &mut self,
        stream: &mut Stream,
        bytes: &'a [u8],
        fin: bool,
        fields: &mut Fields,
    ) -> Received<'a>
        ensures received { Call fields.old.limit self.old stream.old bytes.now fin
            (result.consumed, told_of result.event, self.new, stream.new) }
        ensures fields { fields.new ≡ fields.old }
    {
        self.read = None;
        if self.reads_instructions(stream, bytes) {
            return self.instructions(stream, bytes);
        }
        self.next(stream, bytes, fin, fields)
    }

    // Returns what is next in bytes that are no instructions for the table.
    fn next<'a>(
        &mut self,
        stream: &mut Stream,
        bytes: &'a [u8],
        fin: bool,
        fields: &mut Fields,
    ) -> Received<'a>
        ensures received { Receives fields.old.limit self.old stream.old bytes.now fin
            (result.consumed, told_of result.event, self.new, stream.new) }
        ensures fields { fields.new ≡ fields.old }
    {
        if self.over {
            return Received {
                consumed: bytes.len(),
                event: Event::More,
            };
        }
        match stream.unread {
            Unread::Nothing => {}
            Unread::Early(size, _) | Unread::Section(size) => {
                return self.read_again(stream, size, bytes, fields);
            }
        }
        match stream.due(bytes.is_empty()) {
            Due::Wait => Received {
                consumed: 0,
                event: Event::Waits(Waits::Answer),
            },
            Due::Content(size) => self.capsules_again(stream, size, bytes),
            Due::Spoiled => self.spoil(stream, bytes.len()),
            Due::End => last(stream, Event::End, bytes.len()),
            Due::Lost => last(stream, Event::SessionLost, bytes.len()),
            Due::Nothing => {
                let found = self
                    .streams
                    .receive(&mut stream.frames, bytes, fin, &mut fields.entries);
                self.give(stream, found, bytes, fields)
            }
        }
    }

    // Returns what was found on a stream.
    fn give<'a>(
        &mut self,
        stream: &mut Stream,
        found: Found,
        bytes: &'a [u8],
        fields: &Fields,
    ) -> Received<'a>
        requires { Fits found bytes.now self.old.streams stream.old.frames }
        ensures { FoundGives fields.now.limit found self.old stream.old bytes.now
            (result.consumed, told_of result.event, self.new, stream.new) }
    {
        match found {
            Found::Opened(purpose, n) => return self.opened(stream, purpose, n),
            Found::Settings(settings, start, end) => {
                self.configured = true;
                return Received {
                    consumed: end,
                    event: Event::Settings(settings, &bytes[start..end]),
                };
            }
            Found::Frame(FrameType::Headers, start, end) => {
                return self.section(stream, start, end, bytes, fields);
            }
            Found::Frame(FrameType::GoAway, start, end) => {
                return self.goes_away(start, end, bytes);
            }
            Found::Frame(kind, start, end) => {
                return Received {
                    consumed: end,
                    event: Event::Frame(kind, &bytes[start..end]),
                };
            }
            Found::Data(start, end) => return self.data(stream, start, end, bytes),
            Found::TooLarge(size, n) => {
                return self.too_large(stream, Some(size), n);
            }
            Found::More(n) => {
                return Received {
                    consumed: n,
                    event: more(&stream.frames),
                };
            }
            Found::Fault(fault) => return self.fail(stream, Fault::Streams(fault), bytes.len()),
            Found::End => return self.finish(stream, bytes.len()),
        }
    }

    // Returns the ID of a GOAWAY, whose payload is from `start` to `end`.
    fn goes_away<'a>(&mut self, start: usize, end: usize, bytes: &'a [u8]) -> Received<'a>
        requires { (start ≤ end) × (end ≤ length bytes.now) }
        ensures { (result.consumed, told_of result.event, self.new)
            ≡ goaway_found self.old start end bytes.now }
    {
        match first_varint(&bytes[start..end]) {
            Some((id, _)) => {
                self.goaway = Some(id.into_inner());
                Received {
                    consumed: end,
                    event: Event::GoAway(id.into_inner()),
                }
            }
            None => Received {
                consumed: end,
                event: Event::Frame(FrameType::GoAway, &bytes[start..end]),
            },
        }
    }

    // Returns what the stream is for. The role of a request is known with it.
    fn opened<'a>(&mut self, stream: &mut Stream, purpose: Purpose, n: usize) -> Received<'a>
        ensures { (result.consumed, told_of result.event, self.new, stream.new)
            ≡ found_opened self.old stream.old purpose n }
    {
        let event = match purpose {
            Purpose::Session(session) => {
                stream.belong();
                Event::Joins(session)
            }
            Purpose::Message => {
                stream.begin(Role::Request(self.extended));
                Event::Opened(purpose)
            }
            _ => Event::Opened(purpose),
        };
        Received { consumed: n, event }
    }

    // Ends a stream by this error, with all `len` bytes.
    fn fail<'a>(&mut self, stream: &mut Stream, fault: Fault, len: usize) -> Received<'a>
        ensures { (result.consumed, told_of result.event, self.new, stream.new)
            ≡ fails self.old stream.old fault len }
    {
        stream.part = part_after_error(stream.part);
        Received {
            consumed: len,
            event: self.close(fault),
        }
    }

    // Returns the event of an error, which ends the connection or a stream.
    fn close(&mut self, fault: Fault) -> Event<'static>
        ensures { (self.new, told_of result) ≡ closed_by self.old fault }
    {
        match fault.scope() {
            ErrorScope::Stream => Event::StreamError(fault),
            _ => {
                self.over = true;
                Event::ConnectionError(fault)
            }
        }
    }

    // Ends a stream whose message breaks this rule, with all `len` bytes.
    fn malformed<'a>(&mut self, stream: &mut Stream, rule: Malformed, len: usize) -> Received<'a>
        ensures { (result.consumed, told_of result.event, self.new, stream.new)
            ≡ malformed_is self.old stream.old rule len }
    {
        self.streams.abandon(&mut stream.frames);
        stream.part = Part::NoMessage;
        Received {
            consumed: len,
            event: Event::Malformed(rule),
        }
    }
}

// Returns the event of a stream that has nothing more for now.
fn more(frames: &Frames) -> Event<'static>
    ensures { told_of result ≡ told_more frames.now }
{
    match frames.waits() {
        Some(session) => Event::Waits(Waits::Session(session)),
        None => Event::More,
    }
}

// Returns the last event of a session's own stream, with all `len` bytes.
fn last<'a>(stream: &mut Stream, event: Event<'a>, len: usize) -> Received<'a>
    ensures { (result.consumed, told_of result.event, stream.new)
        ≡ last_in stream.old (told_of event.entry) len }
{
    stream.end();
    Received {
        consumed: len,
        event,
    }
}

// Returns how far a stream is after an error of it.
fn part_after_error(part: Part) -> Part
    ensures { result ≡ after_error part }
{
    match part {
        Part::Session(_) | Part::Losing => Part::Losing,
        Part::Closed(_) | Part::Ending | Part::Past => Part::Past,
        Part::OfSession => Part::OfSession,
        _ => Part::NoMessage,
    }
}
