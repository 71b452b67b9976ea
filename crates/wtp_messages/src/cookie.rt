//! The cookies of a request (RFC 9114, section 4.2.1).
ghost use Rattle.std.specs.Prelude.{◌≡◌, ◌≢◌, None, IfOk, OnErr, option_map};
ghost use Rattle.wtp_messages.specs.Cookie.{cookie_of};

use std::alloc::{AllocError, Global};
use wtp_fields::fields::FieldList;

/// Returns the value of the `cookie` field of a request, or `None` if it has none. The client may have
/// split it into several fields, for better compression: then their values are joined by `; `, as
/// everything but HTTP/2 and HTTP/3 wants them (RFC 9114, section 4.2.1).
///
/// A request with one such field needs no call: [`FieldList::first`] returns its value.
///
/// # Errors
///
/// If allocation fails.
pub fn cookie(alloc: Global, list: &FieldList) -> Result<Option<Vec<u8>>, AllocError>
    ensures joined { IfOk result (λ found. option_map (λ joined. joined.items) found ≡ cookie_of list.now) }
    ensures memory { OnErr result (cookie_of list.now ≢ None) }
{
    let mut values = list.all(b"cookie");
    let Some(first) = values.next() else {
        return Ok(None);
    };
    let mut joined = Vec::from_slice(alloc, first)?;
    while let Some(value) = values.next() {
        joined.extend_from_slice(b"; ")?;
        joined.extend_from_slice(value)?;
    }
    Ok(Some(joined))
}
