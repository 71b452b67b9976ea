//! What the heads of messages say.
ghost use Rattle.std.specs.Prelude.{◌≡◌, false, is_some, None, Some, IfOk};

use crate::refused::Refused;
use wtp_core::ids::SessionId;
use wtp_core::varint::VarInt;
use wtp_fields::fields::{FieldList, three_digits};
use wtp_messages::response::Asked;

// Returns the ID of a request's stream.
pub(super) fn session_id(id: u64) -> Result<SessionId, Refused>
    ensures { IfOk result (λ session. session ≡ id) }
{
    let Ok(number) = VarInt::try_from_u64(id) else {
        return Err(Refused::NoStream);
    };
    match SessionId::try_from_varint(number) {
        Ok(session) => Ok(session),
        Err(_) => Err(Refused::NoStream),
    }
}

// Returns what a request asks for.
pub(super) fn asked_of(list: &FieldList) -> Asked {
    if list.first(b":method") == Some(b"CONNECT") {
        if list.first(b":protocol") == Some(b"webtransport") {
            Asked::Session
        } else {
            Asked::Connect
        }
    } else if list.first(b":method") == Some(b"HEAD") {
        Asked::Head
    } else {
        Asked::Other
    }
}

// Returns whether a request is an extended CONNECT.
pub(super) fn is_extended(list: &FieldList) -> bool {
    list.first(b":method") == Some(b"CONNECT") && list.first(b":protocol").is_some()
}

// Returns the status of a response.
pub(super) fn status_of(list: &FieldList) -> Option<u32> {
    match list.first(b":status") {
        Some(text) => three_digits(text),
        None => None,
    }
}

// Returns whether a response opens a session, if its request asked for one.
pub(super) fn accepts(list: &FieldList) -> bool {
    match status_of(list) {
        Some(status) => status > 199 && status < 300,
        None => false,
    }
}
