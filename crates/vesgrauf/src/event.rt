//! What happened.
use crate::code::StreamCode;
use crate::output::StreamKind;
pub use vesgrauf_stream::bytes::Bytes;
use wtp_connection::settings::PeerSettings;
use wtp_fields::fields::FieldList;
use wtp_frames::endpoint::Side;
use wtp_messages::malformed::Malformed;
use wtp_webtransport::close::Close;
use wtp_webtransport::fault::Fault;

/// What happened. It borrows from the input alone, so that it may be answered while it is handled.
#[derive(Debug, Drop)]
pub struct Event<'a> {
    /// The stream, or 0 for an event of the connection. A client's first request has the ID 0, too: the kind tells them
    /// apart.
    pub stream: u64,
    /// The session that the stream belongs to, or whose own stream it is: also of one that is not answered, or was
    /// refused. Each event of a stream of a session has it.
    pub session: Option<u64>,
    /// The number that the program gave the stream, if it gave one.
    pub user: Option<u64>,
    /// What happened.
    pub kind: EventKind<'a>,
}

/// What a CONNECT request asks for.
#[derive(Clone, Copy, Debug, PartialEq, Eq)]
pub enum Tunnel {
    /// A session of WebTransport.
    Session,
    /// Anything else. This library has no use for it: answer with status 501.
    Other,
}

/// What happened.
#[derive(Debug, Drop)]
pub enum EventKind<'a> {
    /// SETTINGS of the peer came.
    Ready(PeerSettings),
    /// GOAWAY of the peer came, with this ID (RFC 9114, section 5.2). A client sends no new request from now on.
    /// Requests below the ID are processed: all, if it is that of a notice, 2^62 - 4.
    GoAway(u64),
    /// After [`shutdown`](crate::connection::Connection::shutdown): nothing is left, and what was queued is
    /// sent, datagrams too. The connection closes with H3_NO_ERROR.
    Idle,
    /// The connection is closed, with this code, by the peer or here. It is the last event.
    ConnectionClosed(u64, bool),
    /// At a server, a request.
    Request(FieldList),
    /// At a server, a CONNECT request, for this.
    Connect(Tunnel, FieldList),
    /// At a client, an interim response, with its status.
    Interim(u32, FieldList),
    /// At a client, the final response, with its status. With 2xx to a CONNECT request, its session is open.
    Response(u32, FieldList),
    /// A piece of content, or of a stream of a session, of at least one byte.
    Data(Bytes<'a>),
    /// The trailers of the message.
    Trailers(FieldList),
    /// The peer's half ended.
    End,
    /// The peer opened a stream of an open session, of this kind.
    NewStream(StreamKind),
    /// A datagram of a session.
    Datagram(Bytes<'a>),
    /// The peer asks to end the session soon.
    Draining,
    /// The peer reset the stream, with this code.
    Reset(StreamCode),
    /// Nothing more is sent on the own half: the peer asked to stop it, with this code, and it is reset. With H3_NO_ERROR a
    /// server needs no more of a request: its response still comes (RFC 9114, section 4.1). It is told, too, if the session
    /// of the stream is over and the peer's half is read to its end, with WEBTRANSPORT_SESSION_GONE; and if QUIC closed the
    /// stream before it took the end, with H3_REQUEST_CANCELLED.
    Stopped(StreamCode),
    /// The peer violated a rule on the stream, of which the program may not know yet. It comes if
    /// [`tells_failures`](crate::config::Config) is set, before the `Closed` of a stream that the program knows of, and
    /// never after it.
    Failed(Failure),
    /// There is room again on the stream.
    Writable,
    /// There is room again for datagrams.
    DatagramsWritable,
    /// There is room again for own streams of this kind.
    Openable(StreamKind),
    /// The stream is over. It is the last event of the stream: each that the program was told of, or opened, has one.
    Closed(Why),
}

/// A rule that the peer violated, and where.
#[derive(Clone, Copy, Debug, PartialEq, Eq)]
pub struct Failure {
    /// The rule.
    pub rule: Rule,
    /// The stream, or `None` if it was a datagram.
    pub stream: Option<u64>,
    /// How many bytes of the stream were read before those that violate the rule: up to their frame, or their part of it.
    /// SETTINGS that QUIC's transport parameters contradict are read first.
    pub offset: u64,
}

/// A rule that the peer violated.
#[derive(Clone, Copy, Debug, PartialEq, Eq)]
pub enum Rule {
    /// A rule of streams, of frames, of QPACK, of sessions or of datagrams.
    /// [`Rejected`](Fault::Rejected) is none that the peer violated: its session was refused here, or did not come.
    Fault(Fault),
    /// A rule of messages (RFC 9114, section 4.1.2).
    Malformed(Malformed),
    /// A field section is larger than the limits.
    TooLarge,
}

/// Why a stream is over.
#[derive(Debug, Drop)]
pub enum Why {
    /// Both halves are over, and QUIC took all that was queued, and the end. Whether all of the peer's half came is what
    /// `End` and `Reset` say.
    Done,
    /// Both halves are over. The own half was reset, by a call or after `Stopped`: not all that was queued is sent.
    Reset,
    /// The peer closed the session of this stream, with a code and a reason.
    Session(Close),
    /// The session is over, of which this stream was one; or it was the session's own stream, and was lost.
    SessionGone,
    /// The message is malformed, by this rule.
    Malformed(Malformed),
    /// A field section is larger than the limits.
    TooLarge,
    /// The peer violated a rule.
    Fault(Fault),
    /// The server does not process the request: its GOAWAY says so, or it reset the stream with H3_REQUEST_REJECTED. Send
    /// it again, on another connection (RFC 9114, sections 4.1.1 and 5.2).
    Unprocessed,
    /// The connection is closed.
    ConnectionClosed,
}

impl Why {
    ghost use Rattle.std.specs.Prelude.{◌≡◌, None, Some, MatchOption};
    ghost use Rattle.vesgrauf.specs.Closes.{IsText, close_in};

    /// Returns the code and the reason with which the peer closed the session of this stream, if it did.
    pub fn session_close(&self) -> Option<(u32, &str)>
        ensures { MatchOption result (close_in self.now ≡ None)
            (λ x. IsText (close_in self.now) x.0 x.1.now) }
    {
        match self {
            Why::Session(close) => {
                let reason = str::from_utf8(close.reason()).unwrap_or("");
                Some((close.code(), reason))
            }
            _ => None,
        }
    }
}

impl<'a> Event<'a> {
    ghost use Rattle.std.specs.Prelude.{◌≡◌, ◌%◌, ◌==◌, None};
    ghost use Rattle.vesgrauf.specs.Ids.{own_bit};

    /// Returns whether this side opened the stream. Of an event of the connection it says nothing.
    pub fn is_own(&self, side: Side) -> bool
        ensures { result ≡ (self.now.stream % 2 == own_bit side) }
    {
        let bit = match side {
            Side::Client => 0,
            Side::Server => 1,
        };
        self.stream % 2 == bit
    }

    // Creates an event of the connection.
    pub(crate) fn of_connection(kind: EventKind<'a>) -> Self
        ensures { result ≡ record { stream = 0; session = None; user = None; kind = kind.entry } }
    {
        Event {
            stream: 0,
            session: None,
            user: None,
            kind,
        }
    }
}
