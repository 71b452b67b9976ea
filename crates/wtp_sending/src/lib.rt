//! What a connection of HTTP/3 sends: the messages of requests and responses, the control stream,
//! and what belongs to a session of WebTransport (RFC 9114, sections 4 and 6.2.1).
//!
//! A state says what may be sent next on its stream. A call that may not be made now is refused by
//! name. Each call writes all of its bytes to the caller's writer, or none of them, and changes the
//! state only then.
#![tactic(auto)]

pub mod control;
pub mod error;
pub mod indexing;
pub mod laws;
pub mod message;
pub mod peer;
mod write;
