//! Field lists of sections that refer to QPACK's dynamic table (RFC 9204).
#![tactic(auto)]

pub mod laws;
pub mod section;
