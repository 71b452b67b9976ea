//! What a stream is for.
ghost use Rattle.std.specs.Prelude.{◌≡◌};
ghost use Rattle.wtp_core.specs.Varint.{number_at};
ghost use Rattle.wt_inspect_connection.specs.Purposes.{purpose_by_signal, purpose_by_type, purpose_in, purpose_of, purpose_with};
ghost use Rattle.wt_inspect_connection.specs.Purposes.{purpose_without, session_by};

use crate::list::is_bidirectional;
use vesgrauf_registry::streams::{StreamContent, find_stream};
use wtp_core::varint::first_varint;

/// The first number of a bidirectional stream of a session (draft-ietf-webtrans-http3-02, section
/// 4.2).
const SIGNAL: u64 = 0x41;

/// What a stream is for.
#[derive(Clone, Copy, Debug, PartialEq, Eq)]
pub enum Purpose {
    /// A control stream (RFC 9114, section 6.2.1).
    Control,
    /// A push stream (RFC 9114, section 6.2.2).
    Push,
    /// A QPACK encoder stream (RFC 9204, section 4.2).
    Encoder,
    /// A QPACK decoder stream (RFC 9204, section 4.2).
    Decoder,
    /// A stream of the session with this ID (draft-ietf-webtrans-http3-02, section 4).
    Session(u64),
    /// A request and its response (RFC 9114, section 6.1), which may be those of a session.
    Request,
    /// None of these, or too few bytes to know.
    Other,
}

/// Returns what a stream is for, by its ID and by the first bytes of the end that opened it, which
/// are none if they were not recorded.
pub fn purpose_of(id: u64, bytes: &[u8]) -> Purpose
    ensures { result ≡ purpose_of id bytes.now }
{
    if is_bidirectional(id) {
        purpose_by_signal(id, bytes)
    } else {
        purpose_by_type(bytes)
    }
}

/// Returns what a unidirectional stream is for.
fn purpose_by_type(bytes: &[u8]) -> Purpose
    ensures { result ≡ purpose_by_type (number_at bytes.now) }
{
    let Some((number, size)) = first_varint(bytes) else {
        return Purpose::Other;
    };
    match find_stream(number.into_inner()) {
        Some(row) => purpose_in(row.columns.content, &bytes[size..]),
        None => Purpose::Other,
    }
}

/// Returns what a unidirectional stream with this content is for, by the bytes after its type.
fn purpose_in(content: StreamContent, rest: &[u8]) -> Purpose
    ensures { result ≡ purpose_in content rest.now }
{
    match content {
        StreamContent::Session => session_in(rest),
        _ => purpose_with(content),
    }
}

/// Returns what a unidirectional stream with this content is for, without a session.
fn purpose_with(content: StreamContent) -> Purpose
    ensures { result ≡ purpose_with content }
{
    match content {
        StreamContent::Control => Purpose::Control,
        StreamContent::Push => Purpose::Push,
        StreamContent::Encoder => Purpose::Encoder,
        StreamContent::Decoder => Purpose::Decoder,
        _ => Purpose::Other,
    }
}

/// Returns what a bidirectional stream is for.
fn purpose_by_signal(id: u64, bytes: &[u8]) -> Purpose
    ensures { result ≡ purpose_by_signal id (number_at bytes.now) }
{
    match first_varint(bytes) {
        Some((number, size)) if number.into_inner() == SIGNAL => session_in(&bytes[size..]),
        _ => purpose_without(id),
    }
}

/// Returns what a bidirectional stream without a session is for.
fn purpose_without(id: u64) -> Purpose
    ensures { result ≡ purpose_without id }
{
    if id % 2 == 0 {
        Purpose::Request
    } else {
        Purpose::Other
    }
}

/// Returns what a stream is for whose session ID is the first number of these bytes.
fn session_in(bytes: &[u8]) -> Purpose
    ensures { result ≡ session_by (number_at bytes.now) }
{
    match first_varint(bytes) {
        Some((id, _)) if id.into_inner() % 4 == 0 => Purpose::Session(id.into_inner()),
        _ => Purpose::Other,
    }
}
