//! Basic types of WebTransport over HTTP/3: variable-length integers, readers and writers of bytes,
//! stream and session IDs, and error codes.
#![tactic(auto)]

pub mod bytes;
pub mod error;
pub mod ids;
pub mod laws;
pub mod numbers;
pub mod polling;
pub mod varint;
