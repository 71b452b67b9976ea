//! What the bytes of a recorded stream or datagram contain, item by item.
//!
//! [`inspect`] reads the bytes as they were sent in one direction. It returns an [`Inspection`]:
//! the items, in order, each with its place, what looks wrong in them, and how the bytes end.
//! [`Inspecting`] gives the same items one after the other, and keeps none of them.
//! Unlike the streams of `wtransport_proto` it reads payloads of any length, and it goes on after a
//! field section that needs the dynamic table of QPACK.
#![tactic(auto)]

mod capsules;
mod fields;
mod frames;
mod insertions;
mod instructions;
mod items;
pub mod laws;
mod limits;
mod message;
mod past;
mod reading;
mod recording;
mod settings;

pub use insertions::{Insertions, instructions_in};
pub use items::{Inspecting, inspect, inspect_with};
pub use message::request_opens;
pub use reading::Recorded;
pub use wt_inspection_model::item;
pub use wt_inspection_model::item::{Content, End, Inspection, Item};
