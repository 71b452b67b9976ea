//! A field section line by line: of header maps, which put pseudo-header fields before the others, and
//! of field lists, whose texts need not be UTF-8 and whose lines are the shortest.

pub use crate::qpack::field_line::{write as write_line, write_shortest as write_shortest_line};
pub use crate::qpack::field_section::empty_prefix;
