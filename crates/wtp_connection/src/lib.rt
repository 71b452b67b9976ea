//! The receiving half of an HTTP/3 connection: what each stream of the peer is for, and what comes
//! next on it. The caller keeps the streams and their bytes.
#![tactic(auto)]

pub mod budget;
pub mod connection;
pub mod fault;
pub mod fields;
pub mod instructions;
pub mod laws;
pub mod requests;
pub mod settings;
pub mod stream;
