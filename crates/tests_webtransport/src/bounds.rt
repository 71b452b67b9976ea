//! Bytes that wait (draft-ietf-webtrans-http3-02, section 4.5; RFC 9114, section 10.5), the longest
//! datagram, ends, and early data (RFC 9114, section 7.2.4.2).
use crate::playing::{Case, REQUEST, configure, play, server};
use crate::sessions::many_bytes;
use std::alloc::{AllocError, Global};
use std::process::Abort;
use wtp_connection::connection::Known;
use wtp_connection::settings::PeerSettings;
use wtp_connection::stream::Purpose;
use wtp_frames::endpoint::{Endpoint, Side};
use wtp_messages::response::Asked;
use wtp_webtransport::connection::Connection;
use wtp_webtransport::event::{Event, Waits};
use wtp_webtransport::fields::Fields;
use wtp_webtransport::stream::Stream;

/// Returns the code of an error and whether it ends the connection, or 0 of another event.
fn error_of(event: Event<'_>) -> (u64, bool) {
    match event {
        Event::StreamError(fault) => (fault.code().number().into_inner(), false),
        Event::ConnectionError(fault) => (fault.code().number().into_inner(), true),
        _ => (0, false),
    }
}

#[test]
fn a_stream_that_waits_for_its_session_is_rejected(rt: HostRuntime) {
    let mut connection = server(true);
    let mut fields = Fields::new(rt.alloc(), 1000);
    let mut stream = connection.accept(4);
    let bytes = [0x40, 0x41, 0x00, 0x61, 0x62];
    connection.receive(&mut stream, bytes.as_slice(), false, &mut fields);
    connection.join(&mut stream, Known::Coming);
    let (code, ends) = error_of(connection.overflow(&mut stream));
    assert!(rt; code == 0x3994_bd84 && !ends, "the stream is rejected");
    let again = matches!(connection.overflow(&mut stream), Event::More);
    assert!(rt; again, "it is rejected once");
}

#[test]
fn other_streams_that_wait_end_the_connection(rt: HostRuntime) {
    let mut connection = server(true);
    let mut fields = Fields::new(rt.alloc(), 1000);
    let mut stream = connection.accept(0);
    connection.receive(&mut stream, b"\x01\x20".as_slice(), false, &mut fields);
    let (code, ends) = error_of(connection.overflow(&mut stream));
    assert!(rt; code == 0x107 && ends, "the connection ends");
    let again = matches!(connection.overflow(&mut stream), Event::More);
    assert!(rt; again, "nothing is said after it");
}

/// Reads a request for a session until it waits. Returns the stream.
fn request(connection: &mut Connection, id: u64, fields: &mut Fields) -> Stream {
    let mut stream = connection.accept(id);
    let mut start: usize = 0;
    for _turn in 0..4u32 {
        let rest = REQUEST.get(start..).unwrap_or(&[]);
        let received = connection.receive(&mut stream, rest, false, fields);
        start = start.saturating_add(received.consumed);
    }
    stream
}

#[test]
fn requests_that_wait_end_the_connection(rt: HostRuntime) {
    let mut fields = Fields::new(rt.alloc(), 1000);
    let mut connection = server(true);
    let mut early = request(&mut connection, 0, &mut fields);
    let waits = early.waits() == Some(Waits::Settings);
    let error = error_of(connection.overflow(&mut early));
    assert!(rt;
        waits && error == (0x107, true),
        "one that waits for SETTINGS"
    );
    let mut connection = server(true);
    configure(&mut connection, &mut fields);
    let mut unanswered = request(&mut connection, 0, &mut fields);
    let waits = unanswered.waits() == Some(Waits::Answer);
    let error = error_of(connection.overflow(&mut unanswered));
    assert!(rt;
        waits && error == (0x107, true),
        "one that waits for its answer"
    );
}

/// The head of HEADERS with 65,536 bytes: GET https://a/, and the field `x`, of whose value 65,522 bytes
/// follow (RFC 9204, section 4.5 and appendix A).
static LARGEST: [u8; 19] = [
    0x01, 0x80, 0x01, 0x00, 0x00, 0x00, 0x00, 0xd1, 0xd7, 0xc1, 0x50, 0x01, 0x61, 0x21, 0x78, 0x7f,
    0xf3, 0xfe, 0x03,
];

/// The size of these fields (RFC 9114, section 4.2.2): 5 * 32 and the lengths of their names and values.
const LARGEST_SIZE: u64 = 160 + 10 + 12 + 6 + 11 + 65_523;

/// Returns HEADERS with 65,536 bytes.
fn largest_section(alloc: Global) -> Result<Vec<u8>, AllocError> {
    let mut bytes = Vec::from_slice(alloc, LARGEST.as_slice())?;
    let value = many_bytes(alloc)?;
    bytes.extend_from_slice(value.as_slice().get(..65_522).unwrap_or(&[]))?;
    Ok(bytes)
}

/// Returns what comes of a request that begins with these bytes, if its fields may have this size, and
/// how many bytes are consumed: how many fields it has, or 0, and the encoded size if that is too large.
fn section_of(alloc: Global, bytes: &[u8], limit: u64) -> (usize, usize, Option<u64>) {
    let mut connection = server(false);
    let mut fields = Fields::new(alloc, limit);
    let mut stream = connection.accept(0);
    connection.receive(&mut stream, bytes, false, &mut fields);
    let received = connection.receive(&mut stream, bytes, false, &mut fields);
    let consumed = received.consumed;
    match received.event {
        Event::Headers(_, list) => (consumed, list.len(), None),
        Event::TooLarge(size) => (consumed, 0, size),
        _ => (0, 0, None),
    }
}

#[test]
fn field_sections_have_at_most_65536_bytes(rt: HostRuntime) {
    let Ok(bytes) = largest_section(rt.alloc()) else {
        return;
    };
    let whole = section_of(rt.alloc(), bytes.as_slice(), LARGEST_SIZE);
    assert!(rt; whole == (65_541, 5, None), "65,536 bytes");
    let fields = section_of(rt.alloc(), bytes.as_slice(), LARGEST_SIZE - 1);
    assert!(rt; fields == (65_541, 0, None), "fields above their limit");
    let head = b"\x01\x80\x01\x00\x01";
    let more = section_of(rt.alloc(), head.as_slice(), LARGEST_SIZE);
    assert!(rt; more == (5, 0, Some(65_537)), "65,537 bytes");
}

/// Returns the content of the stream of a session: so many frames of a reserved type without content,
/// DATA with a capsule that says that it is draining, and as many such frames again.
fn frames_without_content(alloc: Global, count: u32) -> Result<Vec<u8>, AllocError> {
    let mut bytes = Vec::new(alloc);
    for _frame in 0..count {
        bytes.extend_from_slice(b"\x21\x00")?;
    }
    bytes.extend_from_slice(b"\x00\x05\x80\x00\x78\xae\x00")?;
    for _frame in 0..count {
        bytes.extend_from_slice(b"\x21\x00")?;
    }
    Ok(bytes)
}

/// Asserts the events of the stream of a session with so many frames without content in a row.
fn assert_frames<R: Abort>(rt: &R, alloc: Global, count: u32, wanted: &str) {
    let Ok(bytes) = frames_without_content(alloc, count) else {
        return;
    };
    let size = bytes.len();
    let Ok(events) = play(alloc, Case::Session(200), bytes.as_slice(), size) else {
        return;
    };
    let came = events.as_str();
    assert!(rt; came == wanted, "{count} frames: {came}, and not {wanted}");
}

#[test]
fn sessions_have_at_most_1024_frames_without_content_in_a_row(rt: HostRuntime) {
    let most = "session requested 5; draining; session closed 0 ; end; ";
    assert_frames(&rt, rt.alloc(), 1024, most);
    let more = "session requested 5; connection error 263; ";
    assert_frames(&rt, rt.alloc(), 1025, more);
}

/// DATA of 65,540 bytes: the type and the length of a datagram of 65,535.
static LONGEST: [u8; 10] = [0x00, 0x80, 0x01, 0x00, 0x04, 0x00, 0x80, 0x00, 0xff, 0xff];

/// Returns the content of a session: a datagram of 65,535 bytes.
fn longest_content(alloc: Global) -> Result<Vec<u8>, AllocError> {
    let mut bytes = Vec::from_slice(alloc, LONGEST.as_slice())?;
    let value = many_bytes(alloc)?;
    bytes.extend_from_slice(value.as_slice().get(..65_535).unwrap_or(&[]))?;
    Ok(bytes)
}

#[test]
fn datagrams_of_65535_bytes_are_delivered(rt: HostRuntime) {
    let Ok(bytes) = longest_content(rt.alloc()) else {
        return;
    };
    let size = bytes.len();
    let Ok(events) = play(rt.alloc(), Case::Session(200), bytes.as_slice(), size) else {
        return;
    };
    let came = events.as_str();
    let start = came.starts_with("session requested 5; datagram 0123456789abcdef01");
    let end = came.ends_with("bcde; session closed 0 ; end; ");
    let len = came.len();
    assert!(rt; start && end && len == 65_591, "{len} bytes of text");
}

#[test]
fn nothing_is_said_after_the_end(rt: HostRuntime) {
    let mut connection = Connection::new(Endpoint::new(Side::Client), true);
    let mut fields = Fields::new(rt.alloc(), 1000);
    let mut stream = connection.open(Asked::Other);
    let bytes = [0x01, 0x03, 0x00, 0x00, 0xd9];
    connection.receive(&mut stream, bytes.as_slice(), true, &mut fields);
    let end = connection.receive(&mut stream, &[], true, &mut fields);
    assert!(rt; matches!(end.event, Event::End), "the response ends");
    let reset = matches!(connection.reset(&mut stream), Event::More);
    let overflow = matches!(connection.overflow(&mut stream), Event::More);
    assert!(rt; reset && overflow, "nothing is said after it");
}

/// Reads the control stream of a server, and returns the last event that is an error, or its settings.
fn read(connection: &mut Connection, bytes: &[u8], fields: &mut Fields) -> (u64, bool) {
    let mut control = connection.accept(3);
    let opened = connection.receive(&mut control, bytes, false, fields);
    let rest = bytes.get(opened.consumed..).unwrap_or(&[]);
    let received = connection.receive(&mut control, rest, false, fields);
    error_of(received.event)
}

/// Returns the settings of a server that enables datagrams.
fn remembered(fields: &mut Fields) -> PeerSettings {
    let mut connection = Connection::new(Endpoint::new(Side::Client), true);
    read(&mut connection, b"\x00\x04\x02\x33\x01".as_slice(), fields);
    connection.peer_settings()
}

#[test]
fn remembered_settings_are_kept(rt: HostRuntime) {
    let mut fields = Fields::new(rt.alloc(), 1000);
    let settings = remembered(&mut fields);
    let endpoint = Endpoint::new(Side::Client);
    let mut connection = Connection::resuming(endpoint, true, &settings);
    assert!(rt;
        connection.peer_settings().h3_datagram,
        "datagrams are remembered"
    );
    let (code, ends) = read(&mut connection, b"\x00\x04\x00".as_slice(), &mut fields);
    assert!(rt; code == 0x109 && ends, "SETTINGS do not keep them");
}

#[test]
fn refused_early_data_is_forgotten(rt: HostRuntime) {
    let mut fields = Fields::new(rt.alloc(), 1000);
    let settings = remembered(&mut fields);
    let mut connection = Connection::resuming(Endpoint::new(Side::Client), true, &settings);
    connection.early_data_refused();
    assert!(rt;
        !connection.peer_settings().h3_datagram,
        "they count no more"
    );
    let (code, _) = read(&mut connection, b"\x00\x04\x00".as_slice(), &mut fields);
    assert!(rt; code == 0, "SETTINGS need not keep them");
}

/// Returns a stream of session 0, which is to come, and whether it waits for it.
fn early(connection: &mut Connection, id: u64, fields: &mut Fields) -> (Stream, bool, u64) {
    let mut stream = connection.accept(id);
    connection.receive(&mut stream, b"\x40\x54\x00".as_slice(), false, fields);
    let event = connection.join(&mut stream, Known::Coming);
    let waits = matches!(&event, Event::Waits(Waits::Session(0)));
    let (code, _) = error_of(event);
    (stream, waits, code)
}

#[test]
fn sixteen_streams_wait_for_their_sessions(rt: HostRuntime) {
    let mut connection = server(true);
    let mut fields = Fields::new(rt.alloc(), 1000);
    let (mut first, waits, _) = early(&mut connection, 6, &mut fields);
    assert!(rt; waits, "the first one waits");
    for n in 0..15u64 {
        let (_, waits, _) = early(&mut connection, 10 + 4 * n, &mut fields);
        assert!(rt; waits, "stream {n} after it waits");
    }
    let (_, _, code) = early(&mut connection, 70, &mut fields);
    assert!(rt; code == 0x3994_bd84, "the 17th is rejected");
    let reset = matches!(connection.reset(&mut first), Event::Reset(None));
    let (_, waits, _) = early(&mut connection, 74, &mut fields);
    assert!(rt; reset && waits, "a reset gives its place to another");
}

#[test]
fn streams_of_unknown_types_are_discarded(rt: HostRuntime) {
    let Ok(bytes) = many_bytes(rt.alloc()) else {
        return;
    };
    let mut connection = server(true);
    let mut fields = Fields::new(rt.alloc(), 1000);
    let mut stream = connection.accept(2);
    let opened = connection.receive(&mut stream, b"\x21".as_slice(), false, &mut fields);
    let is_unknown = matches!(opened.event, Event::Opened(Purpose::Ignored));
    assert!(rt; is_unknown && opened.consumed == 1, "its type is unknown");
    for piece in 0..16u32 {
        let rest = connection.receive(&mut stream, bytes.as_slice(), false, &mut fields);
        let is_discarded = matches!(rest.event, Event::More) && rest.consumed == bytes.len();
        assert!(rt; is_discarded, "piece {piece} of 65,536 bytes");
    }
    // (the caller may stop it, with H3_STREAM_CREATION_ERROR: RFC 9114, section 6.2)
    let abandoned = matches!(connection.abandon(&mut stream), Event::More);
    let rest = connection.receive(&mut stream, b"abc".as_slice(), true, &mut fields);
    let nothing = matches!(rest.event, Event::More) && rest.consumed == 3;
    assert!(rt; abandoned && nothing, "nothing is said of it");
}

/// Returns what a stream is told whose session this is: 0 if that is open, and else the code of the error
/// of the stream.
fn told(connection: &mut Connection, its: &Stream, fields: &mut Fields) -> u64 {
    let mut stream = connection.accept(102);
    connection.receive(&mut stream, b"\x40\x54\x00".as_slice(), false, fields);
    let known = connection.known(its);
    match connection.join(&mut stream, known) {
        Event::Joined(_) => 0,
        event => error_of(event).0,
    }
}

// How many sessions a connection may have is the caller's to say: one more is refused with status 429,
// or its stream is reset with H3_REQUEST_REJECTED (draft-ietf-webtrans-http3-07, section 3).
#[test]
fn the_caller_counts_sessions(rt: HostRuntime) {
    let mut connection = server(true);
    let mut fields = Fields::new(rt.alloc(), 1000);
    configure(&mut connection, &mut fields);
    for id in 0..3u64 {
        let mut stream = request(&mut connection, 4 * id, &mut fields);
        let asks = stream.waits() == Some(Waits::Answer);
        stream.answer(200);
        let code = told(&mut connection, &stream, &mut fields);
        assert!(rt; asks && code == 0, "session {id} is open");
    }
    let mut more = request(&mut connection, 12, &mut fields);
    more.answer(429);
    let code = told(&mut connection, &more, &mut fields);
    assert!(rt;
        code == 0x3994_bd84,
        "one that is answered 429 has no streams"
    );
    let mut rejected = request(&mut connection, 16, &mut fields);
    let silent = matches!(connection.abandon(&mut rejected), Event::More);
    let code = told(&mut connection, &rejected, &mut fields);
    assert!(rt; silent && code == 0x3994_bd84, "nor has one that is reset");
}
