//! What a connection announces, and its limits.
use vesgrauf_queue::config::QueueConfig;
use wtp_frames::endpoint::Side;

/// What a server does with a request that is malformed, or of which a field section is too large.
#[derive(Clone, Copy, Debug, PartialEq, Eq)]
pub enum OnMalformed {
    /// It resets the stream: a malformed one with H3_MESSAGE_ERROR, one that is too large with H3_EXCESSIVE_LOAD.
    Reset,
    /// If no final response was sent, it responds with status 400 (Bad Request), or 431 (Request Header Fields Too Large),
    /// and stops the rest of the request with H3_MESSAGE_ERROR, or H3_NO_ERROR (RFC 9114, sections 4.1.2 and 4.2.2).
    Answer,
}

/// What a connection announces in its SETTINGS, and its limits.
#[derive(Clone, Copy)]
pub struct Config {
    /// Which side of the connection this is.
    pub side: Side,
    /// Whether sessions of WebTransport are supported (draft-ietf-webtrans-http3-02, section 3.1). They need datagrams
    /// and, at a server, extended CONNECT.
    pub webtransport: bool,
    /// SETTINGS_H3_DATAGRAM: whether datagrams are supported (RFC 9297, section 2.1.1). False if QUIC has none.
    pub datagrams: bool,
    /// SETTINGS_ENABLE_CONNECT_PROTOCOL: whether extended CONNECT is supported (RFC 9220, section 3).
    pub extended_connect: bool,
    /// SETTINGS_MAX_FIELD_SECTION_SIZE: the largest field section that is read, both as it is encoded and as RFC 9114,
    /// section 4.2.2, counts it.
    pub max_field_section_size: u32,
    /// SETTINGS_QPACK_MAX_TABLE_CAPACITY: the largest dynamic table that the peer may use, in bytes (RFC 9204, section
    /// 5).
    pub qpack_max_table_capacity: u32,
    /// SETTINGS_QPACK_BLOCKED_STREAMS: how many streams may wait for the dynamic table (RFC 9204, section 5).
    pub qpack_blocked_streams: u16,
    /// The largest dynamic table that is used for what is sent, in bytes. What the peer allows bounds it too.
    pub encoder_table_capacity: u32,
    /// How many sessions a server accepts at once. The request for one more is rejected with H3_REQUEST_REJECTED.
    pub max_sessions: u32,
    /// How many more requests a client may give up before their answer than are answered. One more ends the connection
    /// with H3_EXCESSIVE_LOAD (RFC 9114, section 10.5).
    pub max_resets: u64,
    /// How many streams the peer may open beyond those that it has opened. A stream above them ends the connection with
    /// H3_INTERNAL_ERROR. QUIC's own limit is lower.
    pub max_streams: u64,
    /// How many own streams of each kind may wait until QUIC opens them. One more is refused as `Full`. At least 1.
    pub max_unopened: u64,
    /// How many bytes of one stream QUIC's windows are extended by before they can be read. One more of a frame that is
    /// cut is an error, by what the stream is for. Those of a stream that waits, for the dynamic table, its session,
    /// SETTINGS or an answer, are held back from there on: QUIC's windows are extended once they are read or dropped.
    pub receive_buffer: usize,
    /// The same of all streams together: one more of a frame that is cut ends the connection with H3_EXCESSIVE_LOAD.
    /// Streams that wait use at most half of it.
    pub receive_buffer_all: usize,
    /// How many bytes of a stream may be held back, because it waits or the program
    /// [pauses](crate::connection::Connection::pause) it: at least QUIC's window of a stream, which is not extended by
    /// them. One more is an error, by what the stream is for.
    pub max_paused: usize,
    /// How many bytes may be queued on one stream before [`send`](crate::connection::Connection::send) says that it is
    /// full.
    pub send_buffer: usize,
    /// How many bytes of QPACK's own decoder stream may wait for QUIC. One more ends the connection with
    /// H3_EXCESSIVE_LOAD: the peer sends requests, and does not extend the window of that stream (RFC 9114, section
    /// 10.5).
    pub max_instructions: u64,
    /// What a server does with a request that is malformed, or of which a field section is too large.
    pub on_malformed: OnMalformed,
    /// How many datagrams may be queued. At least 1.
    pub datagram_queue: usize,
    /// Whether the bytes that QUIC took stay in place until they are acknowledged: for a QUIC library that keeps
    /// pointers.
    pub keep_until_acked: bool,
    /// Whether bytes that QUIC took count to `send_buffer` until they are acknowledged: for a QUIC library that takes
    /// everything.
    pub bound_by_acked: bool,
    /// One turn of how many goes round all streams, so that none starves. At least 1.
    pub fair: u64,
    /// Whether an event [`Failed`](crate::event::EventKind) tells of each rule that the peer violates on a stream, also
    /// of one that the program does not know of, such as that of a malformed request: for a log, or a tool.
    pub tells_failures: bool,
}

impl Config {
    ghost use Rattle.std.specs.Prelude.{◌≡◌};
    ghost use Rattle.wtp_frames.specs.declared.endpoint.Side.TheVariants.{Client, Server};
    ghost use Rattle.vesgrauf.specs.Config.{default_of, queue_of};

    /// Returns the configuration of a client.
    pub fn client() -> Self
        ensures { result ≡ default_of Client }
    {
        Config::of(Side::Client)
    }

    /// Returns the configuration of a server.
    pub fn server() -> Self
        ensures { result ≡ default_of Server }
    {
        Config::of(Side::Server)
    }

    fn of(side: Side) -> Self
        ensures { result ≡ default_of side }
    {
        Config {
            side,
            webtransport: true,
            datagrams: true,
            extended_connect: true,
            max_field_section_size: 65_536,
            qpack_max_table_capacity: 4096,
            qpack_blocked_streams: 16,
            encoder_table_capacity: 4096,
            max_sessions: 100,
            max_resets: 100,
            max_streams: 1000,
            max_unopened: 100,
            receive_buffer: 65_551,
            receive_buffer_all: 262_144,
            max_paused: 1_048_576,
            send_buffer: 65_536,
            max_instructions: 65_536,
            on_malformed: OnMalformed::Reset,
            datagram_queue: 64,
            keep_until_acked: false,
            bound_by_acked: false,
            fair: 16,
            tells_failures: false,
        }
    }

    // Returns the bounds of the queue of a stream.
    pub(crate) fn queue(&self) -> QueueConfig
        ensures { result ≡ queue_of self.now }
    {
        QueueConfig {
            mark: self.send_buffer,
            keep_until_acked: self.keep_until_acked,
            bound_by_acked: self.bound_by_acked,
        }
    }
}
