//! The registered numbers of HTTP/3, QPACK, HTTP Datagrams and WebTransport over HTTP/3, as tables:
//! frame types, stream types, settings, capsule types and error codes.
//!
//! A row has the number, the name, and what the standards say of it in columns. `specs` has the same
//! tables in the words of the standards, and the contract of each `find_*` says that the two are
//! equal.
#![tactic(auto)]

pub mod capsules;
pub mod codes;
pub mod frames;
pub mod laws;
pub mod row;
pub mod sender;
pub mod settings;
pub mod streams;
