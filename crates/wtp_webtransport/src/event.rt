//! What the streams of a connection give.
ghost use Rattle.std.specs.Prelude.{◌≡◌};

use crate::close::Close;
use crate::fault::Fault;
use wtp_connection::settings::PeerSettings;
use wtp_connection::stream::Purpose;
use wtp_fields::fields::FieldList;
use wtp_frames::frame_type::FrameType;
use wtp_messages::malformed::Malformed;

/// What a field section of a message is.
#[derive(Clone, Copy, Debug, PartialEq, Eq)]
pub enum HeadersKind {
    /// The header section of a request. `wtp_messages::request::Request` reads it.
    Request,
    /// That of an interim response, with its status from 100 to 199. Another response follows.
    Interim(u32),
    /// That of the final response, with its status.
    Response(u32),
    /// The trailer section.
    Trailers,
}

/// Why a stream waits.
#[derive(Clone, Copy, Debug, PartialEq, Eq)]
pub enum Waits {
    /// For the session with this ID, until `Connection::join` says what became of it.
    Session(u64),
    /// For the SETTINGS of the peer: the stream has a request for a session
    /// (draft-ietf-webtrans-http3-07, section 3.1).
    Settings,
    /// For the answer to its CONNECT request, until `Stream::answer`.
    Answer,
    /// For so many insertions into the dynamic table, of which there were fewer: the stream has a field
    /// section that needs them (RFC 9204, section 2.1.2), until [`Event::Inserted`] with as many.
    Table(u64),
}

/// What is next on a stream.
#[derive(Drop)]
pub enum Event<'a> {
    /// What the stream is for, other than a session.
    Opened(Purpose),
    /// The stream belongs to the session with this ID. `Connection::join` says what is known of it.
    Joins(u64),
    /// The stream belongs to the session with this ID, which is open: its bytes follow.
    Joined(u64),
    /// Instructions of the encoder stream were read, where the own SETTINGS allow a dynamic table: how
    /// many entries were inserted since the connection began. Streams that wait for no more than these
    /// are to be read again (RFC 9204, section 2.1.2).
    Inserted(u64),
    /// SETTINGS of the peer: what they define, and their payload.
    Settings(PeerSettings, &'a [u8]),
    /// GOAWAY: at a client the ID of the first request that is not processed, at a server that of a
    /// push (RFC 9114, section 5.2). One with the ID of the last one is an event too, and changes
    /// nothing. All open sessions are draining, as with `Draining`
    /// (draft-ietf-webtrans-http3-07, section 4.6): those are the sessions of the streams that are
    /// [`Open`](wtp_connection::connection::Known::Open) for `Connection::known`. A client sends no
    /// new request.
    GoAway(u64),
    /// Another frame of the control stream: its type and its payload.
    Frame(FrameType, &'a [u8]),
    /// A field section of the message: what it is, and its fields.
    Headers(HeadersKind, FieldList),
    /// At a server, the header section of a request for a session of WebTransport.
    ///
    /// How many sessions a connection has is not bounded: refuse more than you allow with status 429, or
    /// reset the stream with H3_REQUEST_REJECTED and
    /// [`abandon`](crate::connection::Connection::abandon) it (draft-ietf-webtrans-http3-07, section 3).
    SessionRequested(FieldList),
    /// At a client, the header section of the response that accepts a session, with its status.
    SessionReady(u32, FieldList),
    /// At a client, that of a final response that does not accept a session, with its status. What
    /// follows is the rest of an ordinary response.
    Rejected(u32, FieldList),
    /// The peer closed the session whose own stream this is. The streams of the session are to be
    /// reset and stopped: [`join`](crate::connection::Connection::join) returns the error of each. The own
    /// half of this one is to be ended.
    SessionClosed(Close),
    /// The session whose own stream this is ended otherwise: the peer reset this stream or asked to
    /// stop the own half of it, the application abandoned it, or there was an error of it, after
    /// `StreamError`. The streams of the session are to be reset and stopped.
    ///
    /// Each session ends once, with this event or with `SessionClosed`, unless `ConnectionError` comes
    /// first: that ends all sessions, and no other event follows.
    SessionLost,
    /// A datagram of the session whose own stream this is, which came in a capsule (RFC 9297, section
    /// 3.5). It is as one that [`datagram`](crate::connection::Connection::datagram) returns. A capsule
    /// with more than 65,535 bytes is dropped.
    Datagram(Vec<u8>),
    /// The peer asks to end the session whose own stream this is soon. Until then it goes on, and new
    /// streams may be opened in it (draft-ietf-webtrans-http3-07, section 4.6).
    Draining,
    /// The bytes had nothing for the application.
    Skipped,
    /// A piece of the content of the message, of at least one byte.
    Data(&'a [u8]),
    /// A piece of a stream of a session, of at least one byte.
    StreamData(&'a [u8]),
    /// A field section that is larger than the limits: its encoded size, if that is too large. The
    /// section is skipped. If it is not the trailer section nothing more of the message is given: a
    /// server may respond with status 431 (RFC 9114, section 4.2.2), and a client cancels the
    /// request.
    TooLarge(Option<u64>),
    /// The message is malformed, by this rule. It is an error of its stream, with the code
    /// H3_MESSAGE_ERROR. A server may first respond with status 400 (RFC 9114, section 4.1.2). If a
    /// field section breaks several rules, it may be any of them.
    Malformed(Malformed),
    /// An error of the stream: its own half is to be reset with the code, and the peer is to be asked
    /// to stop. If it is the own stream of an open session, the next call of `receive` returns
    /// `SessionLost`.
    StreamError(Fault),
    /// An error of the connection, which is to be closed with the code. No event follows on any
    /// stream, and every session is lost.
    ConnectionError(Fault),
    /// The peer reset the stream before its last event. The own half is to be reset with the code of
    /// the error, if there is one.
    Reset(Option<Fault>),
    /// The stream ended, without an error.
    End,
    /// Allocation failed. The call can be repeated, with the bytes that were not consumed.
    NoMemory,
    /// The bytes that are left wait.
    Waits(Waits),
    /// More bytes are needed.
    More,
}

/// The next event of a stream, and how many bytes are consumed with it.
#[derive(Drop)]
pub struct Received<'a> {
    /// How many bytes are consumed.
    pub consumed: usize,
    /// The event.
    pub event: Event<'a>,
}
