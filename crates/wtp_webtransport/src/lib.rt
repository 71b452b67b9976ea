//! The receiving half of an HTTP/3 connection with its messages: requests at a server, responses at
//! a client, WebTransport sessions and their streams (RFC 9114, sections 4, 6 and 7;
//! draft-ietf-webtrans-http3-02). The caller keeps the streams and their bytes.
#![tactic(auto)]

mod capsules;
pub mod close;
pub mod connection;
pub mod event;
pub mod fault;
pub mod fields;
pub mod laws;
pub mod stream;
pub mod unacknowledged;
