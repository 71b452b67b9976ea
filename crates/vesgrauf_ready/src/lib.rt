//! Whose turn it is to send: the streams that have something to be sent, in the order of RFC 9218.
#![tactic(auto)]

pub mod laws;
pub mod rank;
pub mod ready;
#[cfg(test)]
mod tests;
