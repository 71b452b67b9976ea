//! Each row of the tables, as a section that is decoded; content that comes in frames.
use crate::rows::{MALFORMED_RESPONSES, REQUESTS, RESPONSES, SENT_RESPONSES, TRAILERS};
use crate::same::assert_same;
use std::alloc::{AllocError, Global};
use std::process::Abort;
use wtp_fields::fields::FieldList;
use wtp_messages::check_trailers;
use wtp_messages::content::Content;
use wtp_messages::cookie::cookie;
use wtp_messages::malformed::Malformed;
use wtp_messages::message::{Message, Role, Section};
use wtp_messages::request::Request;
use wtp_messages::response::{Asked, Response};

/// A name and a value.
type Field = (&'static [u8], &'static [u8]);

/// Returns the fields of the message that a row changes.
fn base_of(name: &[u8]) -> &'static [Field] {
    match name {
        b"get" => &[
            (b":method", b"GET"),
            (b":scheme", b"https"),
            (b":authority", b"example.com"),
            (b":path", b"/"),
        ],
        b"session" => &[
            (b":method", b"CONNECT"),
            (b":scheme", b"https"),
            (b":authority", b"example.com"),
            (b":path", b"/chat"),
            (b":protocol", b"webtransport"),
        ],
        b"connect" => &[
            (b":method", b"CONNECT"),
            (b":authority", b"example.com:443"),
        ],
        _ => &[],
    }
}
/// Appends a number below 128 with a prefix of which `most` is the largest value (RFC 9204, section
/// 4.1.1), behind these bits.
fn push_integer(section: &mut Vec<u8>, bits: u8, max: u8, number: usize) -> Result<(), AllocError> {
    let number = u8::try_from(number).unwrap_or(127);
    if number < max {
        section.push(bits | number)?;
    } else {
        section.push(bits | max)?;
        section.push(number - max)?;
    }
    Ok(())
}

/// Makes a change of a row in fields.
fn change_fields(fields: &mut Vec<Field>, change: &'static [u8]) -> Result<(), AllocError> {
    if let Some(name) = change.strip_prefix(b"-") {
        fields.retain(|field| field.0 != name);
        return Ok(());
    }
    let (text, adds) = match change.strip_prefix(b"+") {
        Some(text) => (text, true),
        None => (change, false),
    };
    let at = text
        .iter()
        .position(|byte| *byte == b'=')
        .unwrap_or(text.len());
    let name = &text[..at];
    let value = &text[text.len().min(at + 1)..];
    if !adds && name.first() == Some(&b':') {
        for field in fields.iter_mut() {
            if field.0 == name {
                field.1 = value;
                return Ok(());
            }
        }
    }
    fields.push((name, value))?;
    Ok(())
}

/// Returns the section of these fields, by lines with literal names (RFC 9204, section 4.5.6).
fn section_of(alloc: Global, fields: &[Field]) -> Result<Vec<u8>, AllocError> {
    let mut section = Vec::new(alloc);
    section.extend_from_slice(b"\x00\x00")?;
    for (name, value) in fields {
        push_integer(&mut section, 0x20, 7, name.len())?;
        section.extend_from_slice(name)?;
        push_integer(&mut section, 0x00, 127, value.len())?;
        section.extend_from_slice(value)?;
    }
    Ok(section)
}

/// Returns the name of a row's message, and the list of the fields with its changes.
fn list_of<R: Abort>(rt: &R, alloc: Global, row: &'static [u8]) -> (&'static [u8], FieldList) {
    let mut parts = row.split(|byte| *byte == b'|');
    let name = parts.next().unwrap_or(b"");
    let mut fields = Vec::from_slice(alloc, base_of(name)).expect(rt, "memory");
    for change in parts {
        change_fields(&mut fields, change).expect(rt, "memory");
    }
    let section = section_of(alloc, fields.as_slice()).expect(rt, "memory");
    let list = FieldList::decode(alloc, section.as_slice(), 65_536).expect(rt, "a section");
    (name, list)
}

/// Returns what a response answers.
fn asked(name: &[u8]) -> Asked {
    match name {
        b"to head" => Asked::Head,
        b"to connect" => Asked::Connect,
        b"to session" => Asked::Session,
        _ => Asked::Other,
    }
}

/// Asserts that a message breaks this rule, or none.
fn assert_broken<R: Abort, T: Drop>(
    rt: &R,
    came: Result<T, Malformed>,
    wanted: Option<Malformed>,
    row: &[u8],
) {
    assert_same(rt, came.err(), wanted, row.escape_ascii());
}

#[test]
fn requests_and_trailers_by_the_rules(rt: HostRuntime) {
    for group in &REQUESTS {
        for row in group.rows {
            let (_, list) = list_of(&rt, rt.alloc(), row);
            assert_broken(&rt, Request::read(&list, true), group.broken, row);
        }
    }
    for group in &TRAILERS {
        for row in group.rows {
            let (_, list) = list_of(&rt, rt.alloc(), row);
            assert_broken(&rt, check_trailers(&list), group.broken, row);
        }
    }
    let (_, list) = list_of(&rt, rt.alloc(), b"session");
    let came = Request::read(&list, false);
    assert_broken(&rt, came, Some(Malformed::UnexpectedProtocol), b"session");
}

#[test]
fn a_request_has_its_values(rt: HostRuntime) {
    let (_, list) = list_of(&rt, rt.alloc(), b"session|-:authority|host=h");
    let request = Request::read(&list, true).expect(&rt, "a request");
    assert_same(&rt, request.method, b"CONNECT", "the method");
    assert_same(&rt, request.scheme, Some(b"https".as_slice()), "the scheme");
    assert_same(
        &rt,
        request.authority,
        Some(b"h".as_slice()),
        "the authority",
    );
    assert_same(&rt, request.path, Some(b"/chat".as_slice()), "the path");
    assert_same(
        &rt,
        request.protocol,
        Some(b"webtransport".as_slice()),
        "the protocol",
    );
    assert_same(&rt, request.content, Content::new(None), "the content");
    let (_, list) = list_of(&rt, rt.alloc(), b"get|content-length=7");
    let request = Request::read(&list, false).expect(&rt, "a request");
    assert_same(&rt, request.protocol, None, "no protocol");
    assert_same(&rt, request.content.left(), Some(7), "seven bytes");
}

#[test]
fn responses_by_the_rules(rt: HostRuntime) {
    for group in &MALFORMED_RESPONSES {
        for row in group.rows {
            let (name, list) = list_of(&rt, rt.alloc(), row);
            assert_broken(&rt, Response::read(&list, asked(name)), group.broken, row);
        }
    }
    for row in &RESPONSES {
        let (name, list) = list_of(&rt, rt.alloc(), row.row);
        let response = Response::read(&list, asked(name)).expect(&rt, "a response");
        assert_same(&rt, response.status, row.status, "the status");
        assert_same(&rt, response.content.left(), row.left, "the content");
        assert_same(&rt, response.is_interim(), row.status == 103, "interim");
    }
}

#[test]
fn responses_are_sent_without_a_length_that_says_nothing(rt: HostRuntime) {
    for group in &SENT_RESPONSES {
        for row in group.rows {
            let (name, list) = list_of(&rt, rt.alloc(), row);
            let response = Response::read(&list, asked(name)).expect(&rt, "a response");
            let came = response.check_sent(&list, asked(name));
            assert_broken(&rt, came, group.broken, row);
        }
    }
}

#[test]
fn content_is_the_sum_of_its_frames(rt: HostRuntime) {
    let mut content = Content::new(Some(5));
    assert_same(&rt, content.add(3), Ok(()), "3 of 5");
    assert_same(
        &rt,
        content.finish(),
        Err(Malformed::ContentTooShort),
        "3 of 5",
    );
    assert_same(
        &rt,
        content.add(3),
        Err(Malformed::ContentTooLong),
        "6 of 5",
    );
    assert_same(&rt, content.add(0), Ok(()), "an empty frame");
    assert_same(&rt, content.add(2), Ok(()), "5 of 5");
    assert_same(&rt, content.finish(), Ok(()), "5 of 5");
    let mut content = Content::new(None);
    assert_same(&rt, content.add(1 << 40), Ok(()), "any length");
    assert_same(&rt, content.finish(), Ok(()), "any length");
}

/// Returns the status of a response's section, or 0 for trailers.
fn status_of(section: Result<Section<'_>, Malformed>) -> Result<u32, Malformed> {
    match section? {
        Section::Interim(response) | Section::Response(response) => Ok(response.status),
        Section::Request(_) | Section::Trailers => Ok(0),
    }
}

#[test]
fn a_response_has_interim_ones_before_it_and_trailers_after_it(rt: HostRuntime) {
    let (_, interim) = list_of(&rt, rt.alloc(), b"to other|:status=103");
    let (_, last) = list_of(&rt, rt.alloc(), b"to other|:status=200|content-length=5");
    let (_, trailers) = list_of(&rt, rt.alloc(), b"empty|digest=x");
    let (_, faulty) = list_of(&rt, rt.alloc(), b"empty|te=trailers");
    let mut message = Message::new(Role::Response(Asked::Other));
    assert_same(&rt, message.data(0), Ok(()), "no content yet");
    assert_same(
        &rt,
        message.data(1),
        Err(Malformed::ContentTooLong),
        "content before",
    );
    assert_same(
        &rt,
        status_of(message.section(&interim)),
        Ok(103),
        "interim",
    );
    assert_same(
        &rt,
        status_of(message.section(&interim)),
        Ok(103),
        "interim, again",
    );
    assert_same(
        &rt,
        message.finish(),
        Err(Malformed::MissingHead),
        "no final response",
    );
    assert_same(&rt, status_of(message.section(&last)), Ok(200), "final");
    assert_same(&rt, message.left(), Some(5), "five bytes");
    assert_same(&rt, message.data(4), Ok(()), "four bytes");
    assert_same(
        &rt,
        message.finish(),
        Err(Malformed::ContentTooShort),
        "one is missing",
    );
    assert_same(
        &rt,
        message.data(2),
        Err(Malformed::ContentTooLong),
        "one too many",
    );
    assert_same(&rt, message.data(1), Ok(()), "the last byte");
    let came = status_of(message.section(&faulty));
    assert_same(&rt, came, Err(Malformed::InvalidTe), "faulty trailers");
    assert_same(
        &rt,
        status_of(message.section(&trailers)),
        Ok(0),
        "trailers",
    );
    assert_same(&rt, message.finish(), Ok(()), "the end");
}

#[test]
fn a_request_has_its_content(rt: HostRuntime) {
    let (_, head) = list_of(&rt, rt.alloc(), b"get|content-length=3");
    let (_, session) = list_of(&rt, rt.alloc(), b"session");
    let mut message = Message::new(Role::Request(false));
    let refused = status_of(message.section(&session));
    assert_same(
        &rt,
        refused,
        Err(Malformed::UnexpectedProtocol),
        "no extended CONNECT",
    );
    assert_same(
        &rt,
        message.finish(),
        Err(Malformed::MissingHead),
        "no head",
    );
    let came = message.section(&head);
    assert!(&rt; matches!(came, Ok(Section::Request(_))), "a request");
    assert_same(&rt, message.data(3), Ok(()), "three bytes");
    assert_same(&rt, message.finish(), Ok(()), "the end");
    let mut message = Message::new(Role::Request(true));
    let came = message.section(&session);
    assert!(&rt;
        matches!(came, Ok(Section::Request(_))),
        "a session's request"
    );
    assert_same(&rt, message.data(1 << 32), Ok(()), "capsules of any length");
    assert_same(&rt, message.finish(), Ok(()), "the end");
}

/// A request, and its cookies: the second row is the example of RFC 9113, section 8.2.3.
static COOKIES: [(&[u8], Option<&[u8]>); 5] = [
    (b"get", None),
    (
        b"get|+cookie=a=b|+cookie=c=d|+cookie=e=f",
        Some(b"a=b; c=d; e=f"),
    ),
    (b"get|+cookie=a=b", Some(b"a=b")),
    (b"get|+cookie=|+x=y|+cookie=", Some(b"; ")),
    (b"get|+cookies=a=b|+cookie2=c", None),
];

#[test]
fn cookies_are_joined(rt: HostRuntime) {
    for row in &COOKIES {
        let (_, list) = list_of(&rt, rt.alloc(), row.0);
        let Ok(found) = cookie(rt.alloc(), &list) else {
            continue;
        };
        let came = match &found {
            Some(text) => Some(text.as_slice()),
            None => None,
        };
        assert!(rt; came == row.1, "the cookies of {:?}", row.0);
    }
}
