//! Which header sections are those of messages whose DATA frames contain capsules (RFC 9297, section
//! 3.1).

ghost use Rattle.std.specs.List.{list_any};
ghost use Rattle.std.specs.Prelude.{◌≡◌};
ghost use Rattle.wt_inspection.specs.SessionSections.{accepts, ends_item};
ghost use Rattle.wt_inspection.specs.SessionSections.{has_capsule_protocol, is_capsule_field};
ghost use Rattle.wt_inspection.specs.SessionSections.{is_capsule_protocol, is_connect, is_interim};
ghost use Rattle.wt_inspection.specs.SessionSections.{is_interim_status, is_refusal_status};
ghost use Rattle.wt_inspection.specs.SessionSections.{is_true_item, names_session, opens_session};
ghost use Rattle.wt_inspection.specs.SessionSections.{request_opens, response_opens};
ghost use Rattle.wt_inspection.specs.SessionSections.{starts_with_one, starts_with_two};

use crate::message::{has_field, is_named};
use wt_inspection_model::item::{FieldSection, Line};
use wtp_wire::rules::StreamRole;

/// Returns whether a section is that of an interim response, with a status that begins with 1 (RFC
/// 9114, section 4.1).
pub(super) fn is_interim(role: StreamRole, section: &FieldSection) -> bool
    ensures { result ≡ is_interim role section.now }
{
    match role {
        StreamRole::BiLocal | StreamRole::Session => has_interim_status(section),
        StreamRole::BiRemote | StreamRole::UniRemote => false,
    }
}

/// Returns whether a section has the status of an interim response.
fn has_interim_status(section: &FieldSection) -> bool
    ensures { result ≡ list_any is_interim_status section.now.lines.items }
{
    section.lines.iter().any(|line| is_interim_status(line))
}

/// Returns whether a line is the status of an interim response: its first digit is 1 (RFC 9110,
/// section 15.2).
fn is_interim_status(line: &Line) -> bool
    ensures { result ≡ is_interim_status line.now }
{
    is_named(line, b":status") && starts_with_one(line.value.as_slice())
}

/// Returns whether the first byte is the digit 1.
fn starts_with_one(value: &[u8]) -> bool
    ensures { result ≡ starts_with_one value.now }
{
    match value.first() {
        Some(&first) => first == b'1',
        None => false,
    }
}

/// Returns whether the DATA frames after a header section contain capsules. The response to a request
/// for a session needs no field that says so.
pub(super) fn opens_session(role: StreamRole, section: &FieldSection) -> bool
    ensures { result ≡ opens_session role section.now }
{
    match role {
        StreamRole::BiLocal => response_opens(section),
        StreamRole::Session => accepts(section),
        StreamRole::BiRemote | StreamRole::UniRemote => request_opens(section),
    }
}

/// Returns whether a response accepts, and has one of the fields of sessions.
fn response_opens(section: &FieldSection) -> bool
    ensures { result ≡ response_opens section.now.lines.items }
{
    accepts(section) && names_session(section)
}

/// Returns whether a response has one of the fields of sessions.
fn names_session(section: &FieldSection) -> bool
    ensures { result ≡ names_session section.now.lines.items }
{
    has_capsule_field(section)
        || has_field(section, b"sec-webtransport-http3-draft")
        || has_field(section, b"wt-protocol")
}

/// Returns whether no line of a response is a status code other than of success.
pub(super) fn accepts(section: &FieldSection) -> bool
    ensures { result ≡ accepts section.now.lines.items }
{
    !has_refusal_status(section)
}

/// Returns whether a line of a response is a status code other than of success.
fn has_refusal_status(section: &FieldSection) -> bool
    ensures { result ≡ list_any is_refusal_status section.now.lines.items }
{
    section.lines.iter().any(|line| is_refusal_status(line))
}

/// Returns whether a line is a status code other than of success, whose first digit is 2 (RFC 9110,
/// section 15.3).
fn is_refusal_status(line: &Line) -> bool
    ensures { result ≡ is_refusal_status line.now }
{
    is_named(line, b":status") && !starts_with_two(line.value.as_slice())
}

/// Returns whether the first byte is the digit 2.
fn starts_with_two(value: &[u8]) -> bool
    ensures { result ≡ starts_with_two value.now }
{
    match value.first() {
        Some(&first) => first == b'2',
        None => false,
    }
}

/// Returns whether a request, with this header section, is an extended CONNECT with capsules, or a
/// CONNECT whose section cannot be read up to `:protocol`. Then DATA frames contain capsules.
pub fn request_opens(section: &FieldSection) -> bool
    ensures { result ≡ request_opens section.now.fault section.now.lines.items }
{
    match section.fault {
        None => has_capsule_protocol(section),
        Some(_) => {
            has_capsule_protocol(section)
                || (connects(section) && !has_field(section, b":protocol"))
        }
    }
}

/// Returns whether the extended CONNECT of a request has capsules.
fn has_capsule_protocol(section: &FieldSection) -> bool
    ensures { result ≡ has_capsule_protocol section.now.lines.items }
{
    names_capsule_protocol(section)
        || (has_field(section, b":protocol") && has_capsule_field(section))
}

/// Returns whether a request has a `:protocol` with capsules.
fn names_capsule_protocol(section: &FieldSection) -> bool
    ensures { result ≡ list_any is_capsule_protocol section.now.lines.items }
{
    section.lines.iter().any(|line| is_capsule_protocol(line))
}

/// Returns whether a line is `:protocol` with one of WebTransport, or with one of RFC 9298 and RFC
/// 9484.
fn is_capsule_protocol(line: &Line) -> bool
    ensures { result ≡ is_capsule_protocol line.now }
{
    let value = line.value.as_slice();
    is_named(line, b":protocol")
        && (value == b"webtransport".as_slice()
            || value == b"webtransport-h3".as_slice()
            || value == b"connect-udp".as_slice()
            || value == b"connect-ip".as_slice())
}

/// Returns whether a section has `capsule-protocol` with the value true.
fn has_capsule_field(section: &FieldSection) -> bool
    ensures { result ≡ list_any is_capsule_field section.now.lines.items }
{
    section.lines.iter().any(|line| is_capsule_field(line))
}

/// Returns whether a line is `capsule-protocol` with the value true (RFC 9297, section 3.4).
fn is_capsule_field(line: &Line) -> bool
    ensures { result ≡ is_capsule_field line.now }
{
    is_named(line, b"capsule-protocol") && is_true_item(line.value.as_slice())
}

/// Returns whether a value is a Boolean item that is true, whatever its parameters (RFC 8941,
/// sections 3.3 and 3.3.6).
fn is_true_item(value: &[u8]) -> bool
    ensures { result ≡ is_true_item value.now }
{
    match value {
        [first, second, rest @ ..] => *first == b'?' && *second == b'1' && ends_item(rest),
        [_] | [] => false,
    }
}

/// Returns whether these bytes are the end of an item, or its parameters.
fn ends_item(rest: &[u8]) -> bool
    ensures { result ≡ ends_item rest.now }
{
    match rest.first() {
        Some(&first) => first == b';',
        None => true,
    }
}

/// Returns whether a request has the method CONNECT.
pub(super) fn connects(section: &FieldSection) -> bool
    ensures { result ≡ list_any is_connect section.now.lines.items }
{
    section.lines.iter().any(|line| is_connect(line))
}

/// Returns whether a line is the method CONNECT.
fn is_connect(line: &Line) -> bool
    ensures { result ≡ is_connect line.now }
{
    is_named(line, b":method") && line.value.as_slice() == b"CONNECT".as_slice()
}
