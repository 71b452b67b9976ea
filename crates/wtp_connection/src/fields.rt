//! The memory for the field sections of a connection.
ghost use Rattle.std.specs.Prelude.{◌≡◌};

/// The memory for the field sections of a connection. With a dynamic table of capacity 0 (RFC 9204,
/// section 3.2.3) it has no entries.
#[derive(Drop)]
pub struct Fields {
    /// How many entries the peer inserted.
    insert_count: u64,
}

impl Fields {
    /// Creates the memory of a connection that allows no dynamic table.
    pub fn new() -> Self
        ensures { result ≡ record { insert_count = 0 } }
    {
        Fields { insert_count: 0 }
    }

    /// Returns how many entries the peer inserted (RFC 9204, section 2.1.4).
    pub fn insert_count(&self) -> u64
        ensures { result ≡ self.now.insert_count }
    {
        self.insert_count
    }
}
