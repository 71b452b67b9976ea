//! Field sections of HTTP/3 with the static table only (RFC 9204, section 4.5).
//!
//! `wtp_fields` passes [`qpack`] and [`laws`] on. This is a crate of its own, without frames, so
//! that it can be proved at the same time as those.
#![tactic(auto)]

mod codes;
pub mod laws;
pub mod parts;
pub mod qpack;
pub mod section;
pub mod sensitive;
