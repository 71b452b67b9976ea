//! The encoder of QPACK with the dynamic table (RFC 9204): writes field sections and the encoder
//! stream, and reads the decoder stream.
#![tactic(auto)]

mod chain;
mod choice;
pub mod decoder_stream;
pub mod encoder;
mod hash;
mod indexed;
mod insertion;
mod key;
pub mod laws;
pub mod lookup;
pub mod plan;
pub mod proposal;
pub mod section;
