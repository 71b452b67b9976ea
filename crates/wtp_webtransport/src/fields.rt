//! The memory for the field sections of a connection, and their limit.
ghost use Rattle.std.specs.Prelude.{◌≡◌};
ghost use Rattle.wtp_webtransport.specs.Prefix.{names_table as names_table_is};

use std::alloc::Global;
use wtp_connection::fields::Fields as Entries;

/// The memory for the field sections of a connection, and their limit.
#[derive(Drop)]
pub struct Fields {
    pub(crate) entries: Entries,
    pub(crate) alloc: Global,
    pub(crate) limit: u64,
}

impl Fields {
    /// Creates the memory for the field sections of a connection.
    ///
    /// `limit` bounds the size of a decoded field section: for each field the lengths of its name and
    /// its value in bytes, plus 32 (RFC 9114, section 4.2.2).
    pub fn new(alloc: Global, limit: u64) -> Self
        ensures { result.limit ≡ limit }
    {
        Fields {
            entries: Entries::new(),
            alloc,
            limit,
        }
    }

    /// Returns the largest size of a decoded field section.
    pub fn limit(&self) -> u64
        ensures { result ≡ self.now.limit }
    {
        self.limit
    }
}

// Returns whether the prefix of a field section refers to a dynamic table (RFC 9204, section 4.5.1).
pub(crate) fn names_table(section: &[u8]) -> bool
    ensures { result ≡ names_table_is section.now }
{
    match section {
        [] => false,
        [count] => *count != 0,
        [count, base, ..] => *count != 0 || *base >= 0x80,
    }
}
