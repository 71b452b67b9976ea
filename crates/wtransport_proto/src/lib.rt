//! The protocol core of WebTransport over HTTP/3, without a network.
//!
//! The crate parses the bytes of streams and datagrams into frames, settings, requests, responses,
//! capsules and exact error codes, and serializes them again. Users depend on this crate only: it
//! re-exports the crates below it. The modules, in the order of the protocol:
//!
//! - [`bytes`]: sources and sinks for the streams of a QUIC library; readers and writers over
//!   memory.
//! - [`stream_header`]: the first bytes of a unidirectional stream, which determine its purpose.
//! - [`stream`]: streams, typed by their kind and state: opening, accepting, upgrading, reading and
//!   writing them.
//! - [`frame`]: the frames on a stream.
//! - [`head`]: the two numbers with which a frame, a capsule and a setting start.
//! - [`settings`]: the first frame of a control stream.
//! - [`session`]: the request for a session and the response, in HEADERS frames.
//! - [`fields`], [`headers`]: the fields of requests and responses, as a list of bytes and as a map
//!   of texts.
//! - [`qpack`], [`huffman`]: the encoding of fields.
//! - [`datagram`]: the datagrams of a session.
//! - [`capsule`]: the capsule that closes a session, in DATA frames.
//! - [`error`]: the error codes with which a stream or the connection is closed.
//! - [`varint`], [`ids`]: variable-length integers, stream and session IDs, status codes.
//! - [`exchange`]: sending a frame, and sending or receiving a header map, in a bounded number of
//!   polls.
//! - [`laws`]: facts about the definitions that the contracts cite, for users' proofs.
//!
//! See docs/GUIDE.md, which builds a client and a server step by step.
#![tactic(auto)]

pub use wtp_core::{bytes, error, ids, varint};
pub use wtp_fields::{fields, headers, huffman, qpack, session};
pub use wtp_wire::{capsule, datagram, frame, head, settings, stream_header};

mod codes;
pub mod exchange;
pub mod laws;
pub mod stream;

/// The ALPN protocol ID that a QUIC connection for WebTransport negotiates (RFC 9114, section 3.1).
pub const WEBTRANSPORT_ALPN: &[u8; 2] = b"h3";

// The protocol ID is the text "h3".
const _: () = prove!(WEBTRANSPORT_ALPN[0] == 0x68);

const _: () = prove!(WEBTRANSPORT_ALPN[1] == 0x33);
