//! Requests, responses and trailers of HTTP/3: which field sections are malformed, and how much
//! content a message has (RFC 9114, section 4).
#![tactic(auto)]

mod authority;
pub mod content;
pub mod cookie;
pub mod laws;
mod length;
pub mod malformed;
pub mod message;
mod names;
pub mod request;
pub mod response;
mod section;

pub use section::{SectionKind, check_trailers};
