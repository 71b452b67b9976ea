//! Subprotocols of sessions of WebTransport: the fields `wt-available-protocols` and `wt-protocol`.
#![tactic(auto)]

pub mod laws;
mod strings;
pub mod subprotocols;
