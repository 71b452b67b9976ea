//! The fields of subprotocols. Tests over the public crates; there is no product code here.
#![tactic(auto)]

#[cfg(test)]
mod subprotocols;
