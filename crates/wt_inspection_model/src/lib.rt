//! The items of an inspection: the types that `wt_inspection` returns, and the names of frame and
//! stream types.
//!
//! They are a separate crate so that the code that displays an inspection can be proved in
//! parallel with the code that produces it. `wt_inspection` re-exports [`item`].
#![tactic(auto)]

pub mod item;
