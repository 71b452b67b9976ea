//! Sessions on their own streams (draft-ietf-webtrans-http3-02, sections 3 and 5; RFC 9297, section 3.3;
//! RFC 9114, section 4.4).
use crate::messages::{Row, check};
use crate::playing::{Case, REQUEST, configure, play, server};
use std::alloc::{AllocError, Global};
use std::process::Abort;
use wtp_connection::connection::Known;
use wtp_frames::endpoint::{Endpoint, Side};
use wtp_messages::response::Asked;
use wtp_webtransport::connection::Connection;
use wtp_webtransport::event::{Event, Waits};
use wtp_webtransport::fields::Fields;
use wtp_webtransport::stream::Stream;

/// What follows a request for a session on its stream.
static SESSIONS: [Row; 26] = [
    // the stream ends
    Row {
        case: Case::Session(200),
        bytes: &[],
        events: "session requested 5; session closed 0 ; end; ",
    },
    // CLOSE with the code 1 and a reason
    Row {
        case: Case::Session(200),
        bytes: &[
            0x00, 0x09, 0x68, 0x43, 0x06, 0x00, 0x00, 0x00, 0x01, 0x61, 0x62,
        ],
        events: "session requested 5; session closed 1 ab; end; ",
    },
    // the same in two DATA frames
    Row {
        case: Case::Session(299),
        bytes: &[
            0x00, 0x04, 0x68, 0x43, 0x06, 0x00, 0x00, 0x05, 0x00, 0x00, 0x01, 0x61, 0x62,
        ],
        events: "session requested 5; session closed 1 ab; end; ",
    },
    // a byte after CLOSE
    Row {
        case: Case::Session(200),
        bytes: &[
            0x00, 0x0a, 0x68, 0x43, 0x06, 0x00, 0x00, 0x00, 0x01, 0x61, 0x62, 0x00,
        ],
        events: "session requested 5; session closed 1 ab; stream error 270; ",
    },
    // a reserved frame after CLOSE
    Row {
        case: Case::Session(200),
        bytes: &[
            0x00, 0x09, 0x68, 0x43, 0x06, 0x00, 0x00, 0x00, 0x01, 0x61, 0x62, 0x21, 0x00,
        ],
        events: "session requested 5; session closed 1 ab; stream error 270; ",
    },
    // HEADERS after CLOSE
    Row {
        case: Case::Session(200),
        bytes: &[
            0x00, 0x07, 0x68, 0x43, 0x04, 0x00, 0x00, 0x00, 0x01, 0x01, 0x06, 0x00, 0x00, 0x21,
            0x78, 0x01, 0x79,
        ],
        events: "session requested 5; session closed 1 ; stream error 270; ",
    },
    // CLOSE of three bytes
    Row {
        case: Case::Session(200),
        bytes: &[0x00, 0x06, 0x68, 0x43, 0x03, 0x00, 0x00, 0x00],
        events: "session requested 5; stream error 270; session lost; ",
    },
    // a reason that is not UTF-8
    Row {
        case: Case::Session(200),
        bytes: &[0x00, 0x08, 0x68, 0x43, 0x05, 0x00, 0x00, 0x00, 0x01, 0xff],
        events: "session requested 5; stream error 270; session lost; ",
    },
    // CLOSE of 1029 bytes
    Row {
        case: Case::Session(200),
        bytes: &[0x00, 0x04, 0x68, 0x43, 0x44, 0x05],
        events: "session requested 5; stream error 270; session lost; ",
    },
    // the end within a capsule
    Row {
        case: Case::Session(200),
        bytes: &[0x00, 0x04, 0x68, 0x43, 0x06, 0x00],
        events: "session requested 5; stream error 270; session lost; ",
    },
    // a reserved capsule
    Row {
        case: Case::Session(200),
        bytes: &[0x00, 0x04, 0x17, 0x02, 0x01, 0x02],
        events: "session requested 5; session closed 0 ; end; ",
    },
    // WT_MAX_DATA of later drafts
    Row {
        case: Case::Session(200),
        bytes: &[0x00, 0x06, 0x99, 0x0b, 0x4d, 0x3d, 0x01, 0x00],
        events: "session requested 5; session closed 0 ; end; ",
    },
    // one of 2^62 - 1 bytes, which the end cuts
    Row {
        case: Case::Session(200),
        bytes: &[
            0x00, 0x0a, 0x17, 0xff, 0xff, 0xff, 0xff, 0xff, 0xff, 0xff, 0xff, 0x00,
        ],
        events: "session requested 5; stream error 270; session lost; ",
    },
    // a datagram
    Row {
        case: Case::Session(200),
        bytes: &[0x00, 0x04, 0x00, 0x02, 0x61, 0x62],
        events: "session requested 5; datagram ab; session closed 0 ; end; ",
    },
    // datagrams over three DATA frames, and one without a payload
    Row {
        case: Case::Session(200),
        bytes: &[
            0x00, 0x04, 0x00, 0x01, 0x61, 0x00, 0x00, 0x02, 0x00, 0x40, 0x00, 0x03, 0x00, 0x01,
            0x62,
        ],
        events: "session requested 5; datagram a; datagram ; datagram b; session closed 0 ; end; ",
    },
    // a datagram, a reserved capsule and CLOSE in one DATA frame
    Row {
        case: Case::Session(200),
        bytes: &[
            0x00, 0x0f, 0x00, 0x01, 0x61, 0x17, 0x01, 0xff, 0x68, 0x43, 0x06, 0x00, 0x00, 0x00,
            0x01, 0x61, 0x62,
        ],
        events: "session requested 5; datagram a; session closed 1 ab; end; ",
    },
    // the end within a datagram
    Row {
        case: Case::Session(200),
        bytes: &[0x00, 0x03, 0x00, 0x02, 0x61],
        events: "session requested 5; stream error 270; session lost; ",
    },
    // DRAIN, and a datagram after it
    Row {
        case: Case::Session(200),
        bytes: &[0x00, 0x08, 0x80, 0x00, 0x78, 0xae, 0x00, 0x00, 0x01, 0x61],
        events: "session requested 5; draining; datagram a; session closed 0 ; end; ",
    },
    // DRAIN with a value
    Row {
        case: Case::Session(200),
        bytes: &[0x00, 0x06, 0x80, 0x00, 0x78, 0xae, 0x01, 0x61],
        events: "session requested 5; stream error 270; session lost; ",
    },
    // content in a DATA frame that is cut
    Row {
        case: Case::Session(200),
        bytes: &[0x00, 0x05, 0x00, 0x01, 0x61],
        events: "session requested 5; datagram a; connection error 262; ",
    },
    // HEADERS in an open session
    Row {
        case: Case::Session(200),
        bytes: &[0x01, 0x06, 0x00, 0x00, 0x21, 0x78, 0x01, 0x79],
        events: "session requested 5; connection error 261; ",
    },
    // the head of HEADERS in an open session
    Row {
        case: Case::Session(200),
        bytes: &[0x01, 0x06],
        events: "session requested 5; connection error 261; ",
    },
    // a session that is refused
    Row {
        case: Case::Session(404),
        bytes: &[0x00, 0x01, 0x61],
        events: "session requested 5; data 1; end; ",
    },
    // a request before SETTINGS
    Row {
        case: Case::Early(200),
        bytes: &[
            0x00, 0x09, 0x68, 0x43, 0x06, 0x00, 0x00, 0x00, 0x01, 0x61, 0x62,
        ],
        events: "waits for settings; session requested 5; session closed 1 ab; end; ",
    },
    // a session at a server without WebTransport
    Row {
        case: Case::Answered(501),
        bytes: &[
            0x01, 0x20, 0x00, 0x00, 0xcf, 0xd7, 0xc1, 0x50, 0x01, 0x61, 0x27, 0x02, 0x3a, 0x70,
            0x72, 0x6f, 0x74, 0x6f, 0x63, 0x6f, 0x6c, 0x0c, 0x77, 0x65, 0x62, 0x74, 0x72, 0x61,
            0x6e, 0x73, 0x70, 0x6f, 0x72, 0x74,
        ],
        events: "request 5; end; ",
    },
    // a session of Chromium 156: a reserved capsule over two DATA frames, and CLOSE
    Row {
        case: Case::Recorded(200),
        bytes: &[
            0x01, 0x40, 0x83, 0x00, 0x00, 0xd7, 0xcf, 0x50, 0x8a, 0x08, 0x9d, 0x5c, 0x0b, 0x81,
            0x70, 0xdc, 0x69, 0xa6, 0x59, 0x51, 0x90, 0x60, 0x93, 0x8d, 0x3f, 0xe5, 0x87, 0x3d,
            0x30, 0x07, 0xe3, 0xcc, 0x0a, 0xde, 0x65, 0x58, 0x5f, 0x2f, 0x00, 0xb9, 0x5d, 0x87,
            0x49, 0xc8, 0x7a, 0x3f, 0x89, 0xf0, 0x58, 0xd3, 0x60, 0xea, 0x45, 0x67, 0xb1, 0x3f,
            0x2f, 0x0e, 0x41, 0x48, 0xb7, 0x82, 0xc6, 0x9b, 0x07, 0x52, 0x2b, 0x3d, 0x89, 0x5a,
            0x74, 0xa6, 0xb6, 0x56, 0x92, 0xc1, 0xca, 0x90, 0x0b, 0x01, 0x31, 0x5f, 0x4b, 0x90,
            0x9d, 0x29, 0xae, 0xe3, 0x0c, 0x04, 0x4e, 0xae, 0x05, 0xc0, 0xb8, 0x6e, 0x34, 0xd3,
            0x2d, 0x7f, 0x2f, 0x09, 0xf0, 0x95, 0x87, 0xdc, 0x66, 0xa0, 0x71, 0xd0, 0x55, 0xab,
            0xb0, 0xe9, 0x39, 0x0f, 0x42, 0x3f, 0x8f, 0xfe, 0x49, 0x38, 0xd2, 0xb0, 0xbf, 0x9f,
            0xa5, 0x3f, 0x92, 0x4e, 0x34, 0xac, 0x1f, 0xe7, 0x00, 0x40, 0x44, 0xc4, 0x08, 0x82,
            0x42, 0xd8, 0x39, 0x59, 0xfa, 0x3b, 0x80, 0xb2, 0x65, 0x7e, 0x03, 0x7e, 0xde, 0x1f,
            0x37, 0x08, 0xc2, 0x3b, 0x07, 0xff, 0x8c, 0x54, 0x61, 0x55, 0xe2, 0x4d, 0xec, 0x63,
            0x6a, 0x26, 0xbd, 0xd5, 0x5d, 0x8b, 0x75, 0xea, 0xe6, 0x48, 0xdc, 0x29, 0x88, 0x0f,
            0xb1, 0x9f, 0x39, 0x43, 0x43, 0x5b, 0x82, 0xcc, 0xf1, 0xd4, 0x15, 0xad, 0x34, 0x52,
            0x74, 0x52, 0xbd, 0x51, 0xdc, 0xeb, 0xbe, 0xcb, 0x41, 0x00, 0x12, 0x68, 0x43, 0x0f,
            0x00, 0x00, 0x12, 0x34, 0x62, 0x79, 0x65, 0x2c, 0x20, 0x77, 0xc3, 0xb6, 0x72, 0x6c,
            0x64,
        ],
        events: "session requested 8; session closed 4660 bye, wörld; end; ",
    },
];

/// Responses to a request for a session.
static RESPONSES: [Row; 9] = [
    // accepted
    Row {
        case: Case::Response(Asked::Session),
        bytes: &[
            0x01, 0x03, 0x00, 0x00, 0xd9, 0x00, 0x09, 0x68, 0x43, 0x06, 0x00, 0x00, 0x00, 0x01,
            0x61, 0x62,
        ],
        events: "session ready 200; session closed 1 ab; end; ",
    },
    // the head of PUSH_PROMISE in a session
    Row {
        case: Case::Response(Asked::Session),
        bytes: &[0x01, 0x03, 0x00, 0x00, 0xd9, 0x05, 0x03],
        events: "session ready 200; connection error 261; ",
    },
    // refused
    Row {
        case: Case::Response(Asked::Session),
        bytes: &[0x01, 0x03, 0x00, 0x00, 0xdb, 0x00, 0x01, 0x61],
        events: "rejected 404; data 1; end; ",
    },
    // after an interim response
    Row {
        case: Case::Response(Asked::Session),
        bytes: &[0x01, 0x03, 0x00, 0x00, 0xd8, 0x01, 0x03, 0x00, 0x00, 0xd9],
        events: "interim 103; session ready 200; session closed 0 ; end; ",
    },
    // 204
    Row {
        case: Case::Response(Asked::Session),
        bytes: &[0x01, 0x04, 0x00, 0x00, 0xff, 0x01],
        events: "malformed: the :status does not go with a session; ",
    },
    // 206
    Row {
        case: Case::Response(Asked::Session),
        bytes: &[0x01, 0x04, 0x00, 0x00, 0xff, 0x02],
        events: "malformed: the :status does not go with a session; ",
    },
    // a content-type
    Row {
        case: Case::Response(Asked::Session),
        bytes: &[0x01, 0x04, 0x00, 0x00, 0xd9, 0xf4],
        events: "malformed: a session's message has a field of content; ",
    },
    // refused, with trailers
    Row {
        case: Case::Response(Asked::Session),
        bytes: &[
            0x01, 0x03, 0x00, 0x00, 0xdb, 0x00, 0x01, 0x61, 0x01, 0x06, 0x00, 0x00, 0x21, 0x78,
            0x01, 0x79,
        ],
        events: "rejected 404; data 1; trailers; end; ",
    },
    // no response
    Row {
        case: Case::Response(Asked::Session),
        bytes: &[],
        events: "stream error 270; ",
    },
];

#[test]
fn sessions_by_their_rules(rt: HostRuntime) {
    for row in &SESSIONS {
        check(&rt, rt.alloc(), row);
    }
}

#[test]
fn responses_to_sessions(rt: HostRuntime) {
    for row in &RESPONSES {
        check(&rt, rt.alloc(), row);
    }
}

/// DATA of 65,541 bytes: the type and the length of a datagram of 65,536.
static LONG: [u8; 10] = [0x00, 0x80, 0x01, 0x00, 0x05, 0x00, 0x80, 0x01, 0x00, 0x00];

/// Returns 65,536 bytes.
pub(crate) fn many_bytes(alloc: Global) -> Result<Vec<u8>, AllocError> {
    let mut bytes = Vec::from_slice(alloc, b"0123456789abcdef")?;
    for _double in 0..12u32 {
        let copy = Vec::from_slice(alloc, bytes.as_slice())?;
        bytes.extend_from_slice(copy.as_slice())?;
    }
    Ok(bytes)
}

/// Returns the content of a session: a datagram of 65,536 bytes, and one of a byte.
fn long_content(alloc: Global) -> Result<Vec<u8>, AllocError> {
    let mut bytes = Vec::from_slice(alloc, LONG.as_slice())?;
    let value = many_bytes(alloc)?;
    bytes.extend_from_slice(value.as_slice())?;
    bytes.extend_from_slice(b"\x00\x03\x00\x01a")?;
    Ok(bytes)
}

#[test]
fn datagrams_that_are_too_long_are_dropped(rt: HostRuntime) {
    let Ok(bytes) = long_content(rt.alloc()) else {
        return;
    };
    let size = bytes.len();
    let Ok(events) = play(rt.alloc(), Case::Session(200), bytes.as_slice(), size) else {
        return;
    };
    let came = events.as_str();
    let wanted = "session requested 5; datagram a; session closed 0 ; end; ";
    assert!(rt; came == wanted, "{came}, and not {wanted}");
}

/// Returns the name of what is known of a session.
fn name(known: Known) -> &'static str {
    match known {
        Known::Coming => "coming",
        Known::Open => "open",
        Known::Over => "over",
        Known::Refused => "refused",
        Known::Other => "other",
        Known::Impossible => "impossible",
    }
}

/// Asserts what is known of the session of a stream.
pub(crate) fn assert_known<R: Abort>(rt: &R, connection: &Connection, its: &Stream, wanted: &str) {
    let came = name(connection.known(its));
    assert!(rt; came == wanted, "{came}, and not {wanted}");
}

#[test]
fn a_session_is_known_from_its_request_to_its_end(rt: HostRuntime) {
    let mut connection = server(true);
    let mut fields = Fields::new(rt.alloc(), 1000);
    configure(&mut connection, &mut fields);
    let mut stream = connection.accept(0);
    assert_known(&rt, &connection, &stream, "coming");
    for _turn in 0..3u32 {
        connection.receive(&mut stream, REQUEST.as_slice(), false, &mut fields);
    }
    assert_known(&rt, &connection, &stream, "coming");
    let waits = stream.waits();
    assert!(rt; waits == Some(Waits::Answer), "it waits for an answer");
    stream.answer(200);
    assert_known(&rt, &connection, &stream, "open");
    let lost = matches!(connection.reset(&mut stream), Event::SessionLost);
    assert!(rt; lost, "a reset ends the session");
    assert_known(&rt, &connection, &stream, "over");
    let again = matches!(connection.reset(&mut stream), Event::More);
    assert!(rt; again, "the session is lost once");
}

#[test]
fn streams_of_a_session_join_it(rt: HostRuntime) {
    let mut connection = server(true);
    let mut fields = Fields::new(rt.alloc(), 1000);
    let mut stream = connection.accept(4);
    let bytes = [0x40, 0x41, 0x00, 0x61, 0x62];
    let joins = connection.receive(&mut stream, bytes.as_slice(), true, &mut fields);
    let is_first = matches!(joins.event, Event::Joins(0)) && joins.consumed == 3;
    assert!(rt; is_first, "it belongs to session 0");
    let known = connection.known_without_stream(0);
    let waits = matches!(
        connection.join(&mut stream, known),
        Event::Waits(Waits::Session(0))
    );
    assert!(rt; waits, "its session is to come");
    let held = connection.receive(&mut stream, &bytes[3..], true, &mut fields);
    let is_held = matches!(held.event, Event::Waits(Waits::Session(0))) && held.consumed == 0;
    assert!(rt; is_held, "its bytes wait");
    let joined = matches!(connection.join(&mut stream, Known::Open), Event::Joined(0));
    assert!(rt; joined, "its session is open");
    let data = connection.receive(&mut stream, &bytes[3..], true, &mut fields);
    let is_data = matches!(data.event, Event::StreamData(b"ab")) && data.consumed == 2;
    assert!(rt; is_data, "its bytes follow");
    let end = connection.receive(&mut stream, &[], true, &mut fields);
    assert!(rt; matches!(end.event, Event::End), "its end follows");
}

#[test]
fn a_stream_of_a_session_that_is_gone_is_refused(rt: HostRuntime) {
    let mut connection = server(true);
    let mut fields = Fields::new(rt.alloc(), 1000);
    let mut late = connection.accept(8);
    let bytes = [0x40, 0x41, 0x00, 0x61, 0x62];
    connection.receive(&mut late, bytes.as_slice(), false, &mut fields);
    let gone = match connection.join(&mut late, Known::Over) {
        Event::StreamError(fault) => fault.code().number().into_inner(),
        _ => 0,
    };
    assert!(rt; gone == 0x170d_7b68, "the session is gone");
    let reset = matches!(connection.reset(&mut late), Event::More);
    assert!(rt; reset, "nothing is said of it after its error");
}

#[test]
fn a_reset_is_told_once(rt: HostRuntime) {
    let mut connection = server(true);
    let mut fields = Fields::new(rt.alloc(), 1000);
    let mut request = connection.accept(12);
    connection.receive(&mut request, b"\x01\x03\x00".as_slice(), false, &mut fields);
    let reset = matches!(connection.reset(&mut request), Event::Reset(Some(_)));
    let again = matches!(connection.reset(&mut request), Event::More);
    assert!(rt; reset && again, "a reset is told once");
}

#[test]
fn goaway_names_what_is_not_processed(rt: HostRuntime) {
    let mut connection = Connection::new(Endpoint::new(Side::Client), false);
    let mut fields = Fields::new(rt.alloc(), 1000);
    let mut control = connection.accept(3);
    // (the ID of the second one is the same: RFC 9114, section 5.2)
    let bytes = [0x00, 0x04, 0x00, 0x07, 0x01, 0x04, 0x07, 0x01, 0x04];
    let mut start: usize = 0;
    let mut came: u32 = 0;
    for _turn in 0..5u32 {
        let rest = bytes.get(start..).unwrap_or(&[]);
        let received = connection.receive(&mut control, rest, false, &mut fields);
        if let Event::GoAway(4) = received.event {
            came = came.saturating_add(1);
        }
        start = start.saturating_add(received.consumed);
    }
    assert!(rt; came == 2, "each GOAWAY is an event");
    assert!(rt; connection.is_unprocessed(4), "request 4 is not processed");
    assert!(rt; connection.is_unprocessed(8), "request 8 is not processed");
    assert!(rt; !connection.is_unprocessed(0), "request 0 is processed");
}
