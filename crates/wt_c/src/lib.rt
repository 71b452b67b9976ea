//! The protocol core for C, without a network: the functions of `c/include/wtransport.h`.
//!
//! The caller owns all state, and all output is written to the caller's memory. Functions return
//! one of the status codes in [`status`], unless their documentation says otherwise. Their
//! contracts state when each status is returned, and what is then written.
#![tactic(auto)]

pub mod capsule_reader;
pub mod capsules;
pub mod codes;
pub mod connections;
pub mod datagrams;
pub mod fields;
pub mod frames;
mod lists;
pub mod numbers;
mod output;
pub mod reader;
pub mod request_faults;
pub mod sections;
pub mod sending;
pub mod sessions;
pub mod settings;
pub mod status;
pub mod stream_headers;
mod texts;
pub mod version;
