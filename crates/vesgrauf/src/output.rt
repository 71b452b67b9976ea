//! What QUIC is to do.
use vesgrauf_ready::rank::Priority;

/// What QUIC is to do.
#[derive(Clone, Copy, Debug, PartialEq, Eq)]
pub enum Output {
    /// Open the next own stream of its kind, which has this ID. Answer with
    /// [`opened`](crate::connection::Connection::opened), or, if QUIC may open no more, with
    /// [`set_blocked`](crate::connection::Connection::set_blocked).
    Open {
        /// The ID of the stream.
        id: u64,
        /// Its kind.
        kind: StreamKind,
    },
    /// Reset a stream, with this code. Bytes that QUIC took and has not sent may be dropped.
    Reset(u64, u64),
    /// Ask the peer to stop a stream, with this code.
    StopSending(u64, u64),
    /// Extend QUIC's windows of a stream and of the connection by so many bytes, which had waited or were held back by
    /// a pause. If QUIC has closed the stream, that of the connection alone.
    Credit(u64, usize),
    /// Read what came on a stream, or leave it in QUIC for now, as a pause asks: for a QUIC library from which a program
    /// reads. It may be ignored, and the stream may be forgotten.
    Read(u64, bool),
    /// A stream has this priority now: for a QUIC library that decides itself whose turn it is. It may be ignored, and the
    /// stream may be forgotten.
    Prioritize(u64, Priority),
    /// Close the connection, with this code.
    Close(u64),
}

/// A kind of streams (RFC 9000, section 2.1).
#[derive(Clone, Copy, Debug, PartialEq, Eq)]
pub enum StreamKind {
    /// Both ends send.
    Bidirectional,
    /// The end that opens it sends.
    Unidirectional,
}

impl StreamKind {
    ghost use Rattle.std.specs.Prelude.{◌≡◌};
    ghost use Rattle.vesgrauf.specs.Ids.{kind_of};

    /// Returns the kind of the stream with this ID.
    pub fn of(id: u64) -> Self
        ensures { result ≡ kind_of id }
    {
        if id % 4 < 2 {
            StreamKind::Bidirectional
        } else {
            StreamKind::Unidirectional
        }
    }
}

/// What QUIC takes nothing of.
#[derive(Clone, Copy, Debug, PartialEq, Eq)]
pub enum Scope {
    /// A stream.
    Stream(u64),
    /// Streams of a kind that are to be opened.
    Kind(StreamKind),
    /// All streams, as without a window of the connection. They may still be opened, reset and stopped.
    All,
}

/// Bytes that QUIC is to send.
#[derive(Drop)]
pub struct Next<'a> {
    /// The stream.
    pub id: u64,
    /// The bytes.
    pub bytes: &'a [u8],
    /// The bytes that follow them.
    pub more: &'a [u8],
    /// Whether the stream ends after these.
    pub fin: bool,
}

/// How a connection is shut down (RFC 9114, section 5.2).
#[derive(Clone, Copy, Debug, PartialEq, Eq)]
pub enum Shutdown {
    /// The peer is told to send no new requests. Those that come are still processed.
    Notice,
    /// Requests that come from now on are rejected.
    Final,
}

/// How many streams there are, but for the own critical ones; sessions, also those that may come to be; credited bytes
/// that are kept until they can be read; and datagrams that are queued to be sent.
#[derive(Clone, Copy, Debug, PartialEq, Eq)]
pub struct Stats {
    /// How many streams there are, but for the own critical ones: the peer's are three where it uses a dynamic table.
    pub streams: usize,
    /// How many sessions there are, or may come to be.
    pub sessions: u32,
    /// How many bytes are kept until they can be read, of those that QUIC's windows were extended by.
    pub held: usize,
    /// How many datagrams are queued.
    pub datagrams: usize,
}
