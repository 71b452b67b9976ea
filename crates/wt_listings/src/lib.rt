//! Lists the frames of a recorded stream, one line each.
#![tactic(auto)]

pub mod listing;
pub mod program;

pub use listing::frames::list_frames;
pub use listing::request::list_request;
pub use listing::stepped::list_stepped;
pub use listing::{ListKind, Listing};
pub use program::run_program;
