//! The Huffman code of HTTP/2 and HTTP/3 (RFC 7541, section 5.2 and Appendix B).
//!
//! `wtp_fields` re-exports [`huffman`]. It is a separate crate so that it can be proved in parallel
//! with the other crates below field sections.
#![tactic(auto)]

pub mod huffman;
pub mod laws;
