//! The lines of how sessions of a connection went.
ghost use Rattle.std.specs.Prelude.{◌<◌, IfSome};
ghost use Rattle.wt_inspection_views.specs.Objects.{AddsLines, AddsMembers};

use super::object::{Lines, Object};

/// How a session of a connection went.
#[derive(Clone, Copy)]
pub struct SessionLine<'a> {
    /// Its ID.
    pub session: u64,
    /// The `:path` of its request.
    pub path: Option<&'a [u8]>,
    /// The `:authority` of its request.
    pub authority: Option<&'a [u8]>,
    /// The `:status` of its final response.
    pub status: Option<&'a [u8]>,
    /// The number of its streams.
    pub streams: u64,
    /// The number of its datagrams.
    pub datagrams: u64,
    /// Where what the client sent on its stream is broken, and the name of the member that says so.
    pub client: Option<(&'a str, u64)>,
    /// The same of what the server sent there.
    pub server: Option<(&'a str, u64)>,
    /// How it ended.
    pub end: &'a str,
    /// Which end ended it, without a close.
    pub by: Option<&'a str>,
    /// The close, if there is one.
    pub close: Option<SessionClose<'a>>,
    /// The close of the other end, if both closed it.
    pub also: Option<SessionClose<'a>>,
}

/// The close of a session.
#[derive(Clone, Copy)]
pub struct SessionClose<'a> {
    /// The end that closed it.
    pub by: &'a str,
    /// The error code.
    pub code: u64,
    /// The reason.
    pub reason: &'a str,
}

/// Appends the line of how a session went: `session` is its ID, and the other members are those of
/// `line`. A status of three digits is a number. `also` is an object with the close of the other end.
pub fn add_session_line(lines: &mut Lines, line: &SessionLine<'_>)
    ensures { AddsLines 1 lines.old lines.new }
{
    let mut object = lines.begin();
    add_asked(&mut object, line);
    add_had(&mut object, line);
    add_ended(&mut object, line);
    lines.add(object)
}

/// Appends the ID, what was asked for, and the answer.
fn add_asked(object: &mut Object, line: &SessionLine<'_>)
    ensures { AddsMembers object.old object.new }
{
    object.add_number("session", line.session);
    add_bytes(object, "path", line.path);
    add_bytes(object, "authority", line.authority);
    add_status(object, line.status)
}

/// Appends what the session had, and where its stream is broken.
fn add_had(object: &mut Object, line: &SessionLine<'_>)
    ensures { AddsMembers object.old object.new }
{
    object.add_number("streams", line.streams);
    object.add_number("datagrams", line.datagrams);
    add_place(object, line.client);
    add_place(object, line.server)
}

/// Appends how the session ended.
fn add_ended(object: &mut Object, line: &SessionLine<'_>)
    ensures { AddsMembers object.old object.new }
{
    object.add_text("end", line.end);
    match line.by {
        Some(by) => object.add_text("ended_by", by),
        None => {}
    }
    match line.close {
        Some(close) => add_close(object, close),
        None => {}
    }
    match line.also {
        Some(close) => add_also(object, close),
        None => {}
    }
}

/// Appends a member with bytes from a peer, if there are some.
fn add_bytes(object: &mut Object, name: &str, bytes: Option<&[u8]>)
    ensures { AddsMembers object.old object.new }
{
    match bytes {
        Some(bytes) => {
            object.add_name(name);
            object.add_value(bytes)
        }
        None => {}
    }
}

/// Appends the status of a response, if there is one.
fn add_status(object: &mut Object, status: Option<&[u8]>)
    ensures { AddsMembers object.old object.new }
{
    match status.and_then(|status| number_of(status)) {
        Some(number) => object.add_number("status", number),
        None => add_bytes(object, "status", status),
    }
}

/// Returns the number that a status of three digits is.
fn number_of(status: &[u8]) -> Option<u64> {
    match status {
        [first, second, third] => {
            let (first, second, third) = (digit_of(*first)?, digit_of(*second)?, digit_of(*third)?);
            Some(100 * first + 10 * second + third)
        }
        _ => None,
    }
}

/// Returns the value of a decimal digit.
fn digit_of(byte: u8) -> Option<u64>
    ensures { IfSome result (λ digit. digit < 10) }
{
    if byte.is_ascii_digit() {
        Some((byte - b'0') as u64)
    } else {
        None
    }
}

/// Appends where a stream is broken, if it is.
fn add_place(object: &mut Object, place: Option<(&str, u64)>)
    ensures { AddsMembers object.old object.new }
{
    match place {
        Some((name, at)) => object.add_number(name, at),
        None => {}
    }
}

/// Appends the members of a close.
fn add_close(object: &mut Object, close: SessionClose<'_>)
    ensures { AddsMembers object.old object.new }
{
    object.add_text("closed_by", close.by);
    object.add_number("code", close.code);
    object.add_text("reason", close.reason)
}

/// Appends the close of the other end as an object.
fn add_also(object: &mut Object, close: SessionClose<'_>)
    ensures { AddsMembers object.old object.new }
{
    object.add_name("also");
    object.begin_object();
    add_close(object, close);
    object.end_object()
}
