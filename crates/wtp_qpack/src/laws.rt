//! Laws of the definitions: the contract of each function is the law. Those about definitions only
//! do nothing.

mod lines;
mod qpack;

pub use lines::{lines_again, lines_of_texts, maps_of_lines, no_shorter_lines, shortest_lines};
pub use qpack::{
    encode_and_decode, field_lines, field_maps, field_sections, prefixed_integers, string_literals,
};
