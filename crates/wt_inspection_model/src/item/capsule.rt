//! Capsules.

/// The type and length of a capsule (RFC 9297, section 3.2).
#[derive(Drop)]
pub struct CapsuleItem {
    /// The offset of the first byte.
    pub at: usize,
    /// The type.
    pub number: u64,
    /// The name of the type, as `DATAGRAM` or `CLOSE_WEBTRANSPORT_SESSION`; or else `reserved` or
    /// `unknown`.
    pub name: &'static str,
    /// The declared length of the value, in bytes.
    pub announced: u64,
    /// The error code and reason, if this is a complete capsule that closes its session.
    pub close: Option<CloseReason>,
    /// The limit, if this is a complete capsule of flow control and its value is its integers.
    pub limit: Option<FlowLimit>,
}

/// A limit in a capsule of the flow control of later drafts of WebTransport over HTTP/3
/// (draft-ietf-webtrans-http3).
#[derive(Clone, Copy, Debug, PartialEq, Eq)]
pub enum FlowLimit {
    /// The limit in WT_MAX_DATA, WT_MAX_STREAMS, WT_DATA_BLOCKED and WT_STREAMS_BLOCKED.
    Session(u64),
    /// The stream ID and the limit in WT_MAX_STREAM_DATA and WT_STREAM_DATA_BLOCKED.
    Stream(u64, u64),
}

/// Why a session is closed (draft-ietf-webtrans-http3-02, section 5).
#[derive(Drop)]
pub struct CloseReason {
    /// The application error code.
    pub code: u64,
    /// The reason.
    pub reason: String,
}
