//! Look-ups of fields in the static table (RFC 9204, section 3.1).

ghost use Rattle.std.specs.Prelude.{◌≡◌};
ghost use Rattle.wtp_qpack.specs.StaticTable.{first_entry, FindsStatic};

use wtp_qpack::parts::{first_static_entry, static_entry_of};

/// Returns the index of the first entry of the static table that has this name and value, or `None`
/// if there is none.
pub fn find_static(name: &[u8], value: &[u8]) -> Option<u64>
    ensures { FindsStatic (name.now, value.now) result }
{
    let named = first_static_entry(name).map(|index| index as u64);
    find_named(named, name, value)
}

/// The same, where this is the index of the first entry with the name.
pub(crate) fn find_named(named: Option<u64>, name: &[u8], value: &[u8]) -> Option<u64>
    requires { first_entry name.now ≡ named }
    ensures { FindsStatic (name.now, value.now) result }
{
    match named {
        Some(first) => static_entry_of(first, name, value),
        None => None,
    }
}
