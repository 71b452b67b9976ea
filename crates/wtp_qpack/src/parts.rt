//! The integers, strings, static entries and lines of QPACK, for the crates that read and write
//! field sections and instructions with the dynamic table.

pub use crate::qpack::field_line::Parts;
pub use crate::qpack::integer::{read as read_integer, write as write_integer};
pub use crate::qpack::static_table::{
    entry as static_entry, entry_of as static_entry_of, first_entry_of as first_static_entry,
};
pub use crate::qpack::string_literal::{
    Texts, has_flag, read as read_string, write as write_string,
};
