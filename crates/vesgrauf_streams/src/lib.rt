//! A map from stream IDs to values, in which a look-up costs the same whatever the number of streams, unless another
//! stream whose ID has the same lowest bits was looked up since.
//!
//! QUIC numbers the streams of a kind one after another (RFC 9000, section 2.1), and a connection looks the same ones
//! up again and again: so the lowest bits of an ID say where its entry was last. [`StreamMap`](map::StreamMap) says
//! what memory that takes.
#![tactic(auto)]

pub mod laws;
pub mod map;
mod recent;
mod slots;
