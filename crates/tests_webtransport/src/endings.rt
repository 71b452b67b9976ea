//! How sessions end otherwise than by a capsule or the end of their own stream
//! (draft-ietf-webtrans-http3-02, section 5).
use crate::playing::{REQUEST, configure, server};
use crate::sessions::assert_known;
use std::alloc::{AllocError, Global};
use std::process::Abort;
use wtp_connection::connection::Known;
use wtp_frames::endpoint::{Endpoint, Side};
use wtp_webtransport::connection::Connection;
use wtp_webtransport::event::Event;
use wtp_webtransport::fields::Fields;
use wtp_webtransport::stream::Stream;

/// Returns an open session's own stream, at a server.
fn open_session(connection: &mut Connection, fields: &mut Fields) -> Stream {
    let mut stream = connection.accept(0);
    for _turn in 0..3u32 {
        connection.receive(&mut stream, REQUEST.as_slice(), false, fields);
    }
    stream.answer(200);
    stream
}

/// Asserts that a session is over, and that no more comes of it.
fn assert_over<R: Abort>(
    rt: &R,
    connection: &mut Connection,
    stream: &mut Stream,
    fields: &mut Fields,
) {
    assert_known(rt, connection, stream, "over");
    let late = connection.receive(stream, b"\x00\x01a".as_slice(), true, fields);
    let is_over = matches!(late.event, Event::More) && late.consumed == 3;
    assert!(rt; is_over, "nothing comes after it");
    let again = matches!(connection.reset(stream), Event::More);
    assert!(rt; again, "nothing is said of it again");
}

#[test]
fn sessions_end_by_a_stop(rt: HostRuntime) {
    let mut connection = server(true);
    let mut fields = Fields::new(rt.alloc(), 1000);
    configure(&mut connection, &mut fields);
    let mut stream = open_session(&mut connection, &mut fields);
    let lost = matches!(connection.stop(&mut stream), Event::SessionLost);
    assert!(rt; lost, "a stop ends the session");
    assert_over(&rt, &mut connection, &mut stream, &mut fields);
}

#[test]
fn sessions_end_by_abandon(rt: HostRuntime) {
    let mut connection = server(true);
    let mut fields = Fields::new(rt.alloc(), 1000);
    configure(&mut connection, &mut fields);
    let mut stream = open_session(&mut connection, &mut fields);
    let lost = matches!(connection.abandon(&mut stream), Event::SessionLost);
    assert!(rt; lost, "a session that is abandoned is lost");
    assert_over(&rt, &mut connection, &mut stream, &mut fields);
}

#[test]
fn a_stop_before_the_answer_says_nothing(rt: HostRuntime) {
    let mut connection = server(true);
    let mut fields = Fields::new(rt.alloc(), 1000);
    configure(&mut connection, &mut fields);
    let mut stream = connection.accept(8);
    connection.receive(&mut stream, REQUEST.as_slice(), false, &mut fields);
    let goes_on = matches!(connection.stop(&mut stream), Event::More);
    assert!(rt; goes_on, "it goes on");
    assert_known(&rt, &connection, &stream, "coming");
}

#[test]
fn no_session_has_an_event_after_the_connection(rt: HostRuntime) {
    let mut connection = server(true);
    let mut fields = Fields::new(rt.alloc(), 1000);
    configure(&mut connection, &mut fields);
    let mut stream = open_session(&mut connection, &mut fields);
    let mut control = connection.accept(6);
    let error = connection.receive(&mut control, b"\x00".as_slice(), false, &mut fields);
    let is_error = matches!(error.event, Event::ConnectionError(_));
    assert!(rt; is_error, "a second control stream ends the connection");
    let stop = matches!(connection.stop(&mut stream), Event::More);
    let reset = matches!(connection.reset(&mut stream), Event::More);
    let abandon = matches!(connection.abandon(&mut stream), Event::More);
    assert!(rt; stop && reset && abandon, "nothing is said of its session");
}

/// A code of RESET_STREAM or STOP_SENDING, and the application's code (draft-ietf-webtrans-http3-07,
/// section 4.3).
struct CodeRow {
    code: u64,
    application: Option<u32>,
}

static CODES: [CodeRow; 9] = [
    CodeRow {
        code: 0x52e4_a40f_a8da,
        application: None,
    },
    CodeRow {
        code: 0x52e4_a40f_a8db,
        application: Some(0),
    },
    CodeRow {
        code: 0x52e4_a40f_a8f8,
        application: Some(29),
    },
    // (reserved: RFC 9114, section 8.1)
    CodeRow {
        code: 0x52e4_a40f_a8f9,
        application: None,
    },
    CodeRow {
        code: 0x52e4_a40f_a8fa,
        application: Some(30),
    },
    CodeRow {
        code: 0x52e5_ac98_3162,
        application: Some(0xffff_ffff),
    },
    CodeRow {
        code: 0x52e5_ac98_3163,
        application: None,
    },
    CodeRow {
        code: 0x010c,
        application: None,
    },
    CodeRow {
        code: 0x4000_0000_0000_0000,
        application: None,
    },
];

#[test]
fn streams_of_sessions_have_codes_of_the_application(rt: HostRuntime) {
    let member = Stream::of_session(0);
    let mut connection = server(true);
    let request = connection.accept(0);
    for row in &CODES {
        let found = member.application_code(row.code);
        assert!(rt; found == row.application, "the code {}", row.code);
        let other = request.application_code(row.code);
        assert!(rt; other.is_none(), "the code {} of a request", row.code);
    }
}

/// Returns a connection of a client, with WebTransport or without.
fn client(webtransport: bool) -> Connection {
    let mut endpoint = Endpoint::new(Side::Client);
    endpoint.webtransport = webtransport;
    endpoint.datagrams = webtransport;
    Connection::new(endpoint, true)
}

/// A bidirectional stream of a server, and what comes of it.
struct FromServer {
    case: &'static str,
    webtransport: bool,
    bytes: &'static [u8],
    /// What comes after them.
    then: Then,
    /// The event of the bytes or of their end, and that of the reset.
    events: (&'static str, &'static str),
    /// Whether the stream has codes of the application before the reset.
    has_codes: bool,
}

/// What comes after the bytes of a stream.
#[derive(Clone, Copy, PartialEq, Eq)]
enum Then {
    /// Nothing yet.
    Open,
    /// The end.
    Fin,
    /// A reset.
    Reset,
}

/// Streams that a server may open where WebTransport is enabled, and not else (RFC 9114, section 6.1).
static FROM_SERVER: [FromServer; 9] = [
    FromServer {
        case: "part of a number, without WebTransport",
        webtransport: false,
        bytes: &[0x80],
        then: Then::Open,
        events: ("error 259", ""),
        has_codes: false,
    },
    FromServer {
        case: "a byte, without WebTransport",
        webtransport: false,
        bytes: &[0x00],
        then: Then::Open,
        events: ("error 259", ""),
        has_codes: false,
    },
    FromServer {
        case: "a reset, without WebTransport",
        webtransport: false,
        bytes: &[],
        then: Then::Reset,
        events: ("more", "error 259"),
        has_codes: false,
    },
    FromServer {
        case: "part of a number and a reset, without WebTransport",
        webtransport: false,
        bytes: &[0x80],
        then: Then::Reset,
        events: ("error 259", "more"),
        has_codes: false,
    },
    FromServer {
        case: "an end, without WebTransport",
        webtransport: false,
        bytes: &[],
        then: Then::Fin,
        events: ("error 259", ""),
        has_codes: false,
    },
    FromServer {
        case: "an end, with WebTransport",
        webtransport: true,
        bytes: &[],
        then: Then::Fin,
        events: ("end", ""),
        has_codes: false,
    },
    FromServer {
        case: "part of a number and the end, with WebTransport",
        webtransport: true,
        bytes: &[0x40],
        then: Then::Fin,
        events: ("error 259", ""),
        has_codes: false,
    },
    FromServer {
        case: "a reset before the ID of the session",
        webtransport: true,
        bytes: &[0x40, 0x41],
        then: Then::Reset,
        events: ("more", "reset"),
        has_codes: false,
    },
    FromServer {
        case: "a reset after the ID of the session",
        webtransport: true,
        bytes: &[0x40, 0x41, 0x00],
        then: Then::Reset,
        events: ("joins 0", "reset"),
        has_codes: true,
    },
];

/// Returns the name of an event, and its number.
fn named(alloc: Global, event: &Event<'_>) -> Result<String, AllocError> {
    match event {
        Event::ConnectionError(fault) => {
            let code = fault.code().number().into_inner();
            format!(in alloc; "error {code}")
        }
        Event::Joins(id) => format!(in alloc; "joins {id}"),
        Event::More => String::from_str(alloc, "more"),
        Event::End => String::from_str(alloc, "end"),
        Event::Reset(None) => String::from_str(alloc, "reset"),
        _ => String::from_str(alloc, "another event"),
    }
}

#[test]
fn a_server_opens_streams_of_sessions_alone(rt: HostRuntime) {
    for row in &FROM_SERVER {
        let mut connection = client(row.webtransport);
        let mut fields = Fields::new(rt.alloc(), 1000);
        let mut stream = connection.accept(1);
        let fin = row.then == Then::Fin;
        let read = connection.receive(&mut stream, row.bytes, fin, &mut fields);
        if let Ok(came) = named(rt.alloc(), &read.event) {
            assert!(rt; came.as_str() == row.events.0, "{}: {came}", row.case);
        }
        let code = stream.application_code(0x52e4_a40f_a8db);
        assert!(rt; code.is_some() == row.has_codes, "{}", row.case);
        if row.then == Then::Reset {
            let reset = connection.reset(&mut stream);
            if let Ok(came) = named(rt.alloc(), &reset) {
                assert!(rt; came.as_str() == row.events.1, "{}: {came}", row.case);
            }
        }
    }
}

#[test]
fn requests_after_the_own_goaway_are_rejected(rt: HostRuntime) {
    let mut connection = server(true);
    let mut fields = Fields::new(rt.alloc(), 1000);
    configure(&mut connection, &mut fields);
    let mut stream = connection.accept(8);
    connection.receive(&mut stream, REQUEST.as_slice(), false, &mut fields);
    let before = matches!(connection.reject(&mut stream, 8, None), Event::More);
    let below = matches!(connection.reject(&mut stream, 8, Some(12)), Event::More);
    assert!(rt; before && below, "it goes on");
    // (RFC 9114, sections 5.2 and 8.1)
    let is_rejected = match connection.reject(&mut stream, 8, Some(8)) {
        Event::StreamError(fault) => fault.code().number().into_inner() == 0x010b,
        _ => false,
    };
    assert!(rt; is_rejected, "it is rejected");
    let rest = connection.receive(&mut stream, REQUEST.as_slice(), true, &mut fields);
    assert!(rt;
        matches!(rest.event, Event::More) && rest.consumed == 34,
        "nothing follows"
    );
    let again = matches!(connection.reject(&mut stream, 8, Some(8)), Event::More);
    assert!(rt; again, "it is rejected once");
}

#[test]
fn streams_of_sessions_are_not_rejected(rt: HostRuntime) {
    let mut connection = server(true);
    let mut fields = Fields::new(rt.alloc(), 1000);
    let mut stream = connection.accept(12);
    connection.receive(&mut stream, b"\x40\x41\x00".as_slice(), false, &mut fields);
    let goes_on = matches!(connection.reject(&mut stream, 12, Some(8)), Event::More);
    assert!(rt; goes_on, "a stream of a session is no request");
}

#[test]
fn a_refused_session_may_be_reset(rt: HostRuntime) {
    let mut connection = server(true);
    let mut fields = Fields::new(rt.alloc(), 1000);
    configure(&mut connection, &mut fields);
    let mut stream = connection.accept(0);
    for _turn in 0..3u32 {
        connection.receive(&mut stream, REQUEST.as_slice(), false, &mut fields);
    }
    stream.answer(404);
    let reset = matches!(connection.reset(&mut stream), Event::Reset(None));
    assert!(rt; reset, "its reset is no error");
    assert_known(&rt, &connection, &stream, "refused");
}

#[test]
fn the_streams_of_a_session_end_with_it(rt: HostRuntime) {
    let mut connection = server(true);
    let mut fields = Fields::new(rt.alloc(), 1000);
    let mut stream = connection.accept(4);
    let bytes = [0x40, 0x41, 0x00, 0x61];
    connection.receive(&mut stream, bytes.as_slice(), false, &mut fields);
    let joined = matches!(connection.join(&mut stream, Known::Open), Event::Joined(0));
    assert!(rt; joined, "its session is open");
    // (draft-ietf-webtrans-http3-07, section 5)
    let is_gone = match connection.join(&mut stream, Known::Over) {
        Event::StreamError(fault) => fault.code().number().into_inner() == 0x170d_7b68,
        _ => false,
    };
    assert!(rt; is_gone, "its session is over");
    let rest = connection.receive(&mut stream, &bytes[3..], true, &mut fields);
    let nothing = matches!(rest.event, Event::More) && rest.consumed == 1;
    assert!(rt; nothing, "nothing follows");
}
