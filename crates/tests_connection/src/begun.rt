//! Sessions without a stream, by the requests that began (RFC 9000, section 2.1; WebTransport over
//! HTTP/3, "Buffering Incoming Streams and Datagrams").
use crate::reading::{connection_of, read};
use crate::same::assert_same;
use std::process::Abort;
use wtp_connection::connection::{Connection, Known};
use wtp_connection::requests::{Beginning, Begun};
use wtp_connection::stream::Stream;
use wtp_frames::endpoint::{Endpoint, Side};

/// Requests that began, and a session.
struct Row {
    case: &'static str,
    /// Whether a server knows of it; otherwise a client.
    server: bool,
    /// So many requests began in their order, those with the IDs 0, 4, 8 and so on.
    first: u64,
    /// The ID of a stream that began after them.
    last: u64,
    session: u64,
    /// What is known of the session.
    known: &'static str,
}

/// The rows: sessions that are to come, that are over, and that no one can tell.
static ROWS: [Row; 13] = [
    Row {
        case: "a stream that overtakes the request of its session",
        server: true,
        first: 0,
        last: 4,
        session: 0,
        known: "coming",
    },
    Row {
        case: "a stream after the request of its session",
        server: true,
        first: 0,
        last: 4,
        session: 4,
        known: "over",
    },
    Row {
        case: "a session of the next request",
        server: true,
        first: 3,
        last: 2,
        session: 12,
        known: "coming",
    },
    Row {
        case: "a session of the last request",
        server: true,
        first: 3,
        last: 2,
        session: 8,
        known: "over",
    },
    Row {
        case: "a request 511 places behind",
        server: true,
        first: 0,
        last: 2044,
        session: 0,
        known: "coming",
    },
    Row {
        case: "a request 511 places behind, after others",
        server: true,
        first: 1000,
        last: 6044,
        session: 4000,
        known: "coming",
    },
    Row {
        case: "a request 1000 places behind",
        server: true,
        first: 0,
        last: 4000,
        session: 0,
        known: "refused",
    },
    Row {
        case: "one that began, 1000 places behind, where all between began",
        server: true,
        first: 1000,
        last: 4000,
        session: 0,
        known: "over",
    },
    Row {
        case: "one that began, far behind others that did not",
        server: true,
        first: 1,
        last: 0x3fff_ffff_ffff_fffc,
        session: 0,
        known: "refused",
    },
    Row {
        case: "the last request of all",
        server: true,
        first: 1,
        last: 0x3fff_ffff_ffff_fffc,
        session: 0x3fff_ffff_ffff_fffc,
        known: "over",
    },
    Row {
        case: "a stream that is no request",
        server: true,
        first: 2,
        last: 6,
        session: 6,
        known: "impossible",
    },
    Row {
        case: "a stream of a server",
        server: true,
        first: 2,
        last: 6,
        session: 5,
        known: "impossible",
    },
    Row {
        case: "a session that a client did not ask for",
        server: false,
        first: 2,
        last: 3,
        session: 0,
        known: "impossible",
    },
];

fn name_of(known: Known) -> &'static str {
    match known {
        Known::Coming => "coming",
        Known::Open => "open",
        Known::Over => "over",
        Known::Refused => "refused",
        Known::Other => "other",
        Known::Impossible => "impossible",
    }
}

#[test]
fn sessions_without_a_stream_are_known(rt: HostRuntime) {
    for row in &ROWS {
        let mut connection = connection_of(row.server, true);
        for n in 0..row.first {
            connection.accept(n.saturating_mul(4));
        }
        connection.accept(row.last);
        let came = name_of(connection.known_without_stream(row.session));
        assert_same(&rt, came, row.known, row.case);
    }
}

/// What happens to a stream after its bytes.
#[derive(Clone, Copy)]
enum Then {
    GoesOn,
    Ends,
    IsReset,
    IsAbandoned,
}

/// A stream with the ID of a session, after these bytes of it.
struct StreamRow {
    case: &'static str,
    id: u64,
    bytes: &'static [u8],
    then: Then,
    /// What is known of the session.
    known: &'static str,
}

/// The rows: streams of a client, at a server.
static STREAMS: [StreamRow; 16] = [
    StreamRow {
        case: "a request before its first byte",
        id: 0,
        bytes: &[],
        then: Then::GoesOn,
        known: "coming",
    },
    StreamRow {
        case: "a request before its HEADERS",
        id: 4,
        bytes: &[0x21, 0x00],
        then: Then::GoesOn,
        known: "coming",
    },
    StreamRow {
        case: "a request without an answer",
        id: 4,
        bytes: &[0x01, 0x01, 0xd1],
        then: Then::GoesOn,
        known: "coming",
    },
    StreamRow {
        case: "a request that ended",
        id: 4,
        bytes: &[0x01, 0x01, 0xd1],
        then: Then::Ends,
        known: "over",
    },
    StreamRow {
        case: "a request without bytes that ended",
        id: 4,
        bytes: &[],
        then: Then::Ends,
        known: "refused",
    },
    StreamRow {
        case: "a request that ended before its HEADERS",
        id: 4,
        bytes: &[0x21, 0x00],
        then: Then::Ends,
        known: "refused",
    },
    StreamRow {
        case: "a request that was reset before its first byte",
        id: 4,
        bytes: &[],
        then: Then::IsReset,
        known: "refused",
    },
    StreamRow {
        case: "a request that was reset within its HEADERS",
        id: 4,
        bytes: &[0x01, 0x02, 0xd1],
        then: Then::IsReset,
        known: "refused",
    },
    StreamRow {
        case: "a request that was reset after its HEADERS",
        id: 4,
        bytes: &[0x01, 0x01, 0xd1],
        then: Then::IsReset,
        known: "over",
    },
    StreamRow {
        case: "a request that was not read before its HEADERS",
        id: 4,
        bytes: &[0x21, 0x00],
        then: Then::IsAbandoned,
        known: "refused",
    },
    StreamRow {
        case: "a request that was not read after its HEADERS",
        id: 4,
        bytes: &[0x01, 0x01, 0xd1],
        then: Then::IsAbandoned,
        known: "over",
    },
    StreamRow {
        case: "a stream of a session",
        id: 8,
        bytes: &[0x40, 0x41, 0x00],
        then: Then::GoesOn,
        known: "impossible",
    },
    StreamRow {
        case: "a stream that names itself",
        id: 8,
        bytes: &[0x40, 0x41, 0x08],
        then: Then::GoesOn,
        known: "impossible",
    },
    StreamRow {
        case: "a control stream, whose ID is no session's",
        id: 2,
        bytes: &[0x00, 0x04, 0x00],
        then: Then::GoesOn,
        known: "impossible",
    },
    StreamRow {
        case: "an encoder stream",
        id: 6,
        bytes: &[0x02],
        then: Then::GoesOn,
        known: "impossible",
    },
    StreamRow {
        case: "a unidirectional stream that is over",
        id: 6,
        bytes: &[0x21],
        then: Then::Ends,
        known: "impossible",
    },
];

/// Lets a stream be reset or abandoned, if it is to be.
fn leave(connection: &mut Connection, stream: &mut Stream, then: Then) {
    match then {
        Then::GoesOn | Then::Ends => {}
        Then::IsReset => {
            connection.reset(stream);
        }
        Then::IsAbandoned => connection.abandon(stream),
    }
}

#[test]
fn sessions_with_a_stream_are_known(rt: HostRuntime) {
    for row in &STREAMS {
        let mut connection = connection_of(true, true);
        let mut stream = connection.accept(row.id);
        let fin = matches!(row.then, Then::Ends);
        read(&mut connection, &mut stream, row.bytes, 64, fin);
        leave(&mut connection, &mut stream, row.then);
        leave(&mut connection, &mut stream, row.then);
        let came = name_of(connection.known(row.id, Some(&stream)));
        assert_same(&rt, came, row.known, row.case);
        let other = name_of(connection.known(row.id.saturating_add(5), Some(&stream)));
        assert_same(&rt, other, "impossible", row.case);
        let alone = name_of(connection.known(16, None));
        assert_same(&rt, alone, "coming", row.case);
    }
}

#[test]
fn a_request_of_a_client_may_be_reset_before_the_response(rt: HostRuntime) {
    let mut connection = connection_of(false, true);
    let mut response = Stream::of_request(Endpoint::new(Side::Client));
    let before = name_of(connection.known(0, Some(&response)));
    connection.reset(&mut response);
    let after = name_of(connection.known(0, Some(&response)));
    assert_same(
        &rt,
        (before, after),
        ("coming", "refused"),
        "a client's request that was reset before the response",
    );
}

#[test]
fn each_of_a_thousand_requests_in_a_mixed_order_is_known(rt: HostRuntime) {
    let mut begun = Begun::new();
    for turn in 0..1000u64 {
        // (an order in which none is more than 17 places behind)
        let n = (turn / 18)
            .saturating_mul(18)
            .saturating_add(turn % 18 * 5 % 18);
        let before = matches!(begun.beginning(n), Beginning::NotBegun);
        begun.insert(n);
        let after = matches!(begun.beginning(n), Beginning::Begun);
        assert_same(&rt, (before, after), (true, true), n);
    }
}
