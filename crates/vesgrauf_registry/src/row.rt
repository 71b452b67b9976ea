//! Rows of a table, and finding one by its number.
ghost use Rattle.std.specs.Prelude.{◌≡◌, option_map};
ghost use Rattle.vesgrauf_registry.specs.Table.{row_among};

/// The name of the constant that a row has in the C library, without `WT_` and the prefix of its
/// table (such as `FRAME_`).
#[derive(Clone, Copy)]
pub enum CName {
    /// The name of the row.
    Same,
    /// This name.
    Other(&'static str),
    /// The C library has no constant for the row.
    Absent,
}

/// A registered number.
pub struct Row<C> {
    /// The number.
    pub number: u64,
    /// The name in the registry.
    pub name: &'static str,
    /// The name of its constant in C.
    pub c_name: CName,
    /// What the standards say of it.
    pub columns: C,
}

/// Returns the first row with this number, or `None` if there is none.
#[tactic(auto, unfolding(crate::specs::Table::row_among))]
pub fn find<C>(rows: &'static [Row<C>], number: u64) -> Option<&'static Row<C>>
    ensures { option_map (λ row. row.now) result ≡ row_among number rows.now }
{
    for row in rows {
        if row.number == number {
            return Some(row);
        }
    }
    None
}
