//! The frames of one stream of an HTTP/3 connection, of any length and in any pieces: those of a
//! message, whose DATA payloads are returned as they arrive, and those of a control stream.
#![tactic(auto)]

pub mod endpoint;
pub mod fault;
pub mod frame_type;
pub mod laws;
pub mod reader;
mod rules;
