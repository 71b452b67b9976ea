//! Sources and sinks for the tests, which transfer data in pieces, are not ready, and stop. There
//! is no product code here.
#![tactic(auto)]

mod sink;
mod source;

pub use sink::{BYTE_BY_BYTE, ScriptedSink, stops_after};
pub use source::{End, OneByteSource, ScriptedSource};
