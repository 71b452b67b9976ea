//! Datagrams of a connection (RFC 9297, sections 2 and 2.1), and own streams that the peer asks to stop
//! (RFC 9114, section 6.2.1; RFC 9204, section 4.2).
use crate::playing::{REQUEST, configure, server};
use crate::sessions::assert_known;
use std::process::Abort;
use wtp_connection::connection::datagrams::DatagramFor;
use wtp_connection::stream::Purpose;
use wtp_frames::endpoint::{Endpoint, Side};
use wtp_messages::response::Asked;
use wtp_webtransport::connection::Connection;
use wtp_webtransport::event::Event;
use wtp_webtransport::fields::Fields;
use wtp_webtransport::stream::Stream;

/// GET https://a/, in a HEADERS frame.
static GET: [u8; 10] = [0x01, 0x08, 0x00, 0x00, 0xd1, 0xd7, 0xc1, 0x50, 0x01, 0x61];

/// CONNECT with :authority a:1, in a HEADERS frame.
static CONNECT: [u8; 10] = [0x01, 0x08, 0x00, 0x00, 0xcf, 0x50, 0x03, 0x61, 0x3a, 0x31];

/// A response with status 404, in a HEADERS frame.
static NOT_FOUND: [u8; 5] = [0x01, 0x03, 0x00, 0x00, 0xdb];

/// Reads these bytes of a stream, which goes on after them.
fn read(connection: &mut Connection, stream: &mut Stream, bytes: &[u8], fields: &mut Fields) {
    let mut start: usize = 0;
    for _turn in 0..4u32 {
        let rest = bytes.get(start..).unwrap_or(&[]);
        let received = connection.receive(stream, rest, false, fields);
        start = start.saturating_add(received.consumed);
    }
}

/// Reads the end of a stream.
fn end(connection: &mut Connection, stream: &mut Stream, fields: &mut Fields) {
    for _turn in 0..2u32 {
        connection.receive(stream, &[], true, fields);
    }
}

/// Asserts what is known of the session of a stream, and what is to be done with a datagram for it.
fn assert_for<R: Abort>(rt: &R, connection: &Connection, its: &Stream, known: &str, wanted: &str) {
    assert_known(rt, connection, its, known);
    let came = match connection.known(its).datagram_for() {
        DatagramFor::Deliver => "deliver",
        DatagramFor::Early => "early",
        DatagramFor::Discard => "discard",
        DatagramFor::EndStream => "end the stream",
    };
    assert!(rt; came == wanted, "{came}, and not {wanted}");
}

#[test]
fn requests_for_no_session_have_no_use_for_datagrams(rt: HostRuntime) {
    let mut connection = server(true);
    let mut fields = Fields::new(rt.alloc(), 1000);
    configure(&mut connection, &mut fields);
    let mut get = connection.accept(0);
    assert_for(&rt, &connection, &get, "coming", "early");
    read(&mut connection, &mut get, &GET, &mut fields);
    assert_for(&rt, &connection, &get, "other", "end the stream");
    end(&mut connection, &mut get, &mut fields);
    assert_for(&rt, &connection, &get, "refused", "discard");
    let mut tunnel = connection.accept(4);
    read(&mut connection, &mut tunnel, &CONNECT, &mut fields);
    assert_for(&rt, &connection, &tunnel, "other", "end the stream");
    tunnel.answer(200);
    assert_for(&rt, &connection, &tunnel, "other", "end the stream");
    let mut refused = connection.accept(8);
    read(&mut connection, &mut refused, &REQUEST, &mut fields);
    assert_for(&rt, &connection, &refused, "coming", "early");
    refused.answer(404);
    assert_for(&rt, &connection, &refused, "refused", "discard");
    let mut open = connection.accept(12);
    read(&mut connection, &mut open, &REQUEST, &mut fields);
    open.answer(200);
    assert_for(&rt, &connection, &open, "open", "deliver");
    end(&mut connection, &mut open, &mut fields);
    assert_for(&rt, &connection, &open, "over", "discard");
}

#[test]
fn a_client_knows_what_it_asked_for(rt: HostRuntime) {
    let mut connection = Connection::new(Endpoint::new(Side::Client), false);
    let mut fields = Fields::new(rt.alloc(), 1000);
    let mut get = connection.open(Asked::Other);
    assert_for(&rt, &connection, &get, "other", "end the stream");
    read(&mut connection, &mut get, &NOT_FOUND, &mut fields);
    assert_for(&rt, &connection, &get, "other", "end the stream");
    end(&mut connection, &mut get, &mut fields);
    assert_for(&rt, &connection, &get, "impossible", "discard");
    let mut session = connection.open(Asked::Session);
    assert_for(&rt, &connection, &session, "coming", "early");
    read(&mut connection, &mut session, &NOT_FOUND, &mut fields);
    assert_for(&rt, &connection, &session, "refused", "discard");
}

/// No number, a number that is cut, and 2^60.
static BROKEN: [&[u8]; 3] = [
    &[],
    &[0x40],
    &[0xd0, 0x00, 0x00, 0x00, 0x00, 0x00, 0x00, 0x00, 0x61],
];

/// Returns a connection of a server whose SETTINGS enable datagrams.
fn with_datagrams() -> Connection {
    let mut endpoint = Endpoint::new(Side::Server);
    endpoint.webtransport = true;
    endpoint.datagrams = true;
    Connection::new(endpoint, true)
}

#[test]
fn datagrams_have_a_session_and_a_payload(rt: HostRuntime) {
    let mut connection = with_datagrams();
    let came = matches!(connection.datagram(b"\x01ab"), Ok(Some((4, b"ab"))));
    assert!(rt; came, "a quarter of 4, and a payload");
    let empty = matches!(connection.datagram(b"\x40\x40"), Ok(Some((256, b""))));
    assert!(rt; empty, "a quarter of 256, and no payload");
    let off = matches!(server(false).datagram(b"\x01ab"), Ok(None));
    assert!(rt; off, "the own SETTINGS do not enable datagrams");
}

#[test]
fn datagrams_without_a_number_end_the_connection(rt: HostRuntime) {
    for bytes in BROKEN {
        let mut connection = with_datagrams();
        let mut fields = Fields::new(rt.alloc(), 1000);
        let code = match connection.datagram(bytes) {
            Ok(_) => 0,
            Err(fault) => fault.code().number().into_inner(),
        };
        assert!(rt; code == 0x33, "{code}, and not H3_DATAGRAM_ERROR");
        let later = matches!(connection.datagram(b"\x01ab"), Ok(None));
        assert!(rt; later, "nothing is taken after it");
        let mut stream = connection.accept(0);
        let after = connection.receive(&mut stream, GET.as_slice(), false, &mut fields);
        let is_over = matches!(after.event, Event::More) && after.consumed == 10;
        assert!(rt; is_over, "nothing is returned after it");
    }
}

#[test]
fn critical_streams_may_not_be_stopped(rt: HostRuntime) {
    for own in [Purpose::Control, Purpose::Encoder, Purpose::Decoder] {
        let mut connection = server(true);
        let mut fields = Fields::new(rt.alloc(), 1000);
        let other = connection.stopped(Purpose::Session(0)).is_none();
        assert!(rt; other, "another stream may be stopped");
        let code = match connection.stopped(own) {
            None => 0,
            Some(fault) => fault.code().number().into_inner(),
        };
        assert!(rt; code == 0x0104, "{code}, and not H3_CLOSED_CRITICAL_STREAM");
        assert!(rt;
            connection.stopped(own).is_none(),
            "the error is returned once"
        );
        let mut stream = connection.accept(0);
        let after = connection.receive(&mut stream, GET.as_slice(), false, &mut fields);
        let is_over = matches!(after.event, Event::More) && after.consumed == 10;
        assert!(rt; is_over, "nothing is returned after it");
    }
}
