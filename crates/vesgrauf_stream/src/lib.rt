//! One stream of a connection of HTTP/3 and WebTransport: what is heard in the bytes that came, however they are
//! cut, and what is sent. Beside it, the datagrams of a connection whose sessions are to come.
#![tactic(auto)]

pub mod bytes;
pub mod early;
pub mod error;
pub mod heard;
pub mod laws;
pub mod reading;
pub mod tools;
pub mod writing;
