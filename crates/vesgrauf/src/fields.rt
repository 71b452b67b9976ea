//! The fields of requests.
ghost use Rattle.std.specs.Prelude.{◌≡◌, IfOk, codes};
ghost use Rattle.vesgrauf.specs.Fields.{request_of};

use std::alloc::{AllocError, Global};
use wtp_fields::fields::FieldList;

/// How much room a list is created with: it grows if it needs more.
const ROOM: usize = 512;

/// Returns the fields of a request (RFC 9114, section 4.3.1): `:method`, `:scheme`, which is `https`, `:authority` and
/// `:path`, in this order. Add others by [`FieldList::push`], and the `:protocol` of an extended CONNECT (RFC 9220, section
/// 3) by [`FieldList::append`]; a CONNECT without one has other fields (RFC 9114, section 4.4). Those of a request for a
/// session at a URL are [`FieldList::request`].
///
/// # Errors
///
/// If memory is refused. Whether the values may be sent is checked where they are.
pub fn request(
    alloc: Global,
    method: &str,
    authority: &str,
    path: &str,
) -> Result<FieldList, AllocError>
    ensures { IfOk result (λ list. list ≡ request_of method.now authority.now path.now) }
{
    let mut list = FieldList::with_room(alloc, ROOM);
    list.append(b":method", method.as_bytes())?;
    list.append(b":scheme", b"https")?;
    list.append(b":authority", authority.as_bytes())?;
    list.append(b":path", path.as_bytes())?;
    Ok(list)
}
