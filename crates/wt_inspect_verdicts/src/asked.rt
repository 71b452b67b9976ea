//! What the end that judges sent: the fields of its requests, and the statuses of its responses.

use std::alloc::{AllocError, Global};
use wt_inspection::item::{FieldSection, Parts};
use wt_inspection::{Content, Insertions, Inspecting, Recorded};
use wtp_core::ids::StatusCode;
use wtp_fields::fields::{FieldList, three_digits};

/// Returns the fields of a recorded request, or `None` if they are not all known. `sent` is the
/// encoder stream of the end that sent it, if it is known.
///
/// Returns [`AllocError`] if allocation fails.
pub(crate) fn request_in(
    alloc: Global,
    bytes: &[u8],
    sent: Option<&Insertions<'_>>,
) -> Result<Option<FieldList>, AllocError> {
    let mut items = Inspecting::new(alloc, Recorded::Bi, bytes, true, sent);
    for _item in 0..u64::MAX {
        let Some(item) = items.next()? else {
            break;
        };
        if let Some(section) = section_in(&item.content) {
            return fields_in(alloc, section);
        }
    }
    Ok(None)
}

/// Returns the status of the final response that is recorded, or `None` if it is not known. `sent` is
/// the encoder stream of the end that sent it, if it is known.
///
/// Returns [`AllocError`] if allocation fails.
pub(crate) fn status_in(
    alloc: Global,
    bytes: &[u8],
    sent: Option<&Insertions<'_>>,
) -> Result<Option<StatusCode>, AllocError> {
    let mut items = Inspecting::new(alloc, Recorded::Response, bytes, true, sent);
    for _item in 0..u64::MAX {
        let Some(item) = items.next()? else {
            break;
        };
        if let Some(section) = section_in(&item.content) {
            match status_of(section) {
                Some(number) if number < 200 => {}
                number => return Ok(number.and_then(|n| StatusCode::try_from_u32(n).ok())),
            }
        }
    }
    Ok(None)
}

/// Returns the field section of a HEADERS frame.
fn section_in(content: &Content) -> Option<&FieldSection> {
    match content {
        Content::Frame(frame) => match &frame.parts {
            Parts::Fields(section) => Some(section),
            _ => None,
        },
        _ => None,
    }
}

/// Returns the fields of a section, or `None` if they are not all known.
fn fields_in(alloc: Global, section: &FieldSection) -> Result<Option<FieldList>, AllocError> {
    if section.fault.is_some() {
        return Ok(None);
    }
    let mut list = FieldList::with_room(alloc, 0);
    for line in &section.lines {
        if line.unknown.is_some() {
            return Ok(None);
        }
        list.append(line.name.as_slice(), line.value.as_slice())?;
    }
    Ok(Some(list))
}

/// Returns the status of a response, if it is known.
fn status_of(section: &FieldSection) -> Option<u32> {
    for line in &section.lines {
        if line.unknown.is_none() && line.name.as_slice() == b":status".as_slice() {
            return three_digits(line.value.as_slice());
        }
    }
    None
}

/// Returns the fields of a request for a page, for a response whose request is not known.
///
/// Returns [`AllocError`] if allocation fails.
pub(crate) fn any_request(alloc: Global) -> Result<FieldList, AllocError> {
    let mut list = FieldList::with_room(alloc, 0);
    list.append(b":method", b"GET")?;
    list.append(b":scheme", b"https")?;
    list.append(b":authority", b"a")?;
    list.append(b":path", b"/")?;
    Ok(list)
}

/// Returns the fields of a request for a session, for one whose request is not known.
///
/// Returns [`AllocError`] if allocation fails.
pub(crate) fn any_session(alloc: Global) -> Result<FieldList, AllocError> {
    let mut list = FieldList::with_room(alloc, 0);
    list.append(b":method", b"CONNECT")?;
    list.append(b":scheme", b"https")?;
    list.append(b":protocol", b"webtransport")?;
    list.append(b":authority", b"a")?;
    list.append(b":path", b"/")?;
    Ok(list)
}
