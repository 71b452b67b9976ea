//! Loops shared by the polled states of this crate and its dependents. They call a source until a
//! buffer is full, a head is complete or bytes are skipped, and call a sink until a buffer or one
//! or two encoded numbers are sent. None of them allocates.
//!
//! `wtransport_proto` does not re-export these modules.
pub mod drain;
pub mod encoded;
pub mod fill;
pub mod head;
pub mod skip_ahead;
