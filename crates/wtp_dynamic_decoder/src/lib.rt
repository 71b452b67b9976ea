//! The decoder of QPACK with the dynamic table (RFC 9204): reads the encoder stream and field
//! sections, and writes the decoder stream.
#![tactic(auto)]

pub mod decoder;
pub mod lines;
