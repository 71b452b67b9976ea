//! QUIC in memory, for tests and examples: a server and its clients over a network that cuts, delays and reorders what
//! it carries, loses datagrams, and has windows and limits.
#![tactic(auto)]

pub mod conditions;
pub mod connections;
mod end;
pub mod handler;
mod link;
pub mod network;
pub mod random;
mod receive;
mod wire;
