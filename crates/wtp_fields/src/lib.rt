//! Field lists and header maps of HTTP/3, and the messages of sessions. The crate re-exports the
//! Huffman code and the field sections that they are encoded with.
#![tactic(auto)]

mod codes;
pub mod fields;
pub mod headers;
pub mod huffman;
pub mod laws;
pub mod session;

pub use wtp_qpack::qpack;
