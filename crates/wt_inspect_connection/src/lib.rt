//! The streams of a recorded connection: who sent which bytes on which of them, what each is for,
//! and in which order they are shown.
//!
//! [`read_list`](list::read_list) reads the list of what was recorded,
//! [`purpose_of`](purpose::purpose_of) says what a stream is for by its ID and its first bytes, and
//! [`in_order`](part::in_order) brings the parts of a connection into their order.
#![tactic(auto)]

pub mod list;
pub mod part;
pub mod piece;
pub mod purpose;
