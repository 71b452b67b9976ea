//! Datagrams of a connection (RFC 9297, sections 2 and 2.1).
use crate::reading::read;
use crate::same::assert_same;
use wtp_connection::connection::datagrams::DatagramFor;
use wtp_connection::connection::{Connection, Known};
use wtp_connection::stream::Stream;
use wtp_core::error::ErrorScope;
use wtp_frames::endpoint::{Endpoint, Side};

/// A datagram that a connection receives.
struct Row {
    case: &'static str,
    bytes: &'static [u8],
    /// The ID of its session and its payload.
    wanted: Option<(u64, &'static [u8])>,
    /// Whether it ends the connection with H3_DATAGRAM_ERROR, 0x33.
    fails: bool,
}

/// The rows: quarter stream IDs of each size, and those that are none.
static ROWS: [Row; 9] = [
    Row {
        case: "of session 0",
        bytes: &[0x00, 1, 2],
        wanted: Some((0, &[1, 2])),
        fails: false,
    },
    Row {
        case: "of session 12, a quarter of which is 3",
        bytes: &[0x03, 0xff],
        wanted: Some((12, &[0xff])),
        fails: false,
    },
    Row {
        case: "a number that is longer than it has to be",
        bytes: &[0x40, 0x03, 0xff],
        wanted: Some((12, &[0xff])),
        fails: false,
    },
    Row {
        case: "an empty payload",
        bytes: &[0x01],
        wanted: Some((4, &[])),
        fails: false,
    },
    Row {
        case: "the largest number, 2^60 - 1",
        bytes: &[0xcf, 0xff, 0xff, 0xff, 0xff, 0xff, 0xff, 0xff, 9],
        wanted: Some((0x3fff_ffff_ffff_fffc, &[9])),
        fails: false,
    },
    Row {
        case: "2^60",
        bytes: &[0xd0, 0, 0, 0, 0, 0, 0, 0, 9],
        wanted: None,
        fails: true,
    },
    Row {
        case: "2^62 - 1",
        bytes: &[0xff, 0xff, 0xff, 0xff, 0xff, 0xff, 0xff, 0xff],
        wanted: None,
        fails: true,
    },
    Row {
        case: "no byte",
        bytes: &[],
        wanted: None,
        fails: true,
    },
    Row {
        case: "part of a number",
        bytes: &[0x40],
        wanted: None,
        fails: true,
    },
];

/// Returns a connection of a server with WebTransport whose SETTINGS enable datagrams or do not.
fn server(datagrams: bool) -> Connection {
    let mut endpoint = Endpoint::new(Side::Server);
    endpoint.webtransport = true;
    endpoint.datagrams = datagrams;
    Connection::new(endpoint)
}

/// Returns how many bytes of DATA the connection returns of a request.
fn data_of_a_request(connection: &mut Connection) -> usize {
    let mut request = Stream::of_peer(4);
    let bytes = [0x01, 0x01, 0xd1, 0x00, 0x01, 0x61];
    read(connection, &mut request, &bytes, 64, true).data
}

#[test]
fn datagrams_have_a_session_and_a_payload(rt: HostRuntime) {
    for row in &ROWS {
        let mut connection = server(true);
        let (came, code, ends) = match connection.datagram(row.bytes) {
            Ok(datagram) => (datagram, 0, false),
            Err(fault) => (
                None,
                fault.code().number().into_inner(),
                matches!(fault.scope(), ErrorScope::Connection),
            ),
        };
        let wanted = if row.fails { 0x33 } else { 0 };
        assert_same(&rt, came, row.wanted, row.case);
        assert_same(&rt, (code, ends), (wanted, row.fails), row.case);
        let data = if row.fails { 0 } else { 1 };
        assert_same(&rt, data_of_a_request(&mut connection), data, row.case);
        let later = connection.datagram(&[0x00]).unwrap_or(Some((1, &[])));
        let next = if row.fails { None } else { Some((0, 0)) };
        assert_same(&rt, later.map(|d| (d.0, d.1.len())), next, row.case);
    }
}

#[test]
fn datagrams_that_were_not_enabled_are_dropped(rt: HostRuntime) {
    for row in &ROWS {
        let mut connection = server(false);
        let came = connection.datagram(row.bytes);
        assert_same(&rt, matches!(came, Ok(None)), true, row.case);
        assert_same(&rt, data_of_a_request(&mut connection), 1, row.case);
    }
}

/// What is to be done with a datagram (RFC 9297, sections 2 and 2.1).
static USES: [(&str, Known, &str); 6] = [
    ("of a session that is to come", Known::Coming, "early"),
    ("of an open session", Known::Open, "deliver"),
    ("of a session that is over", Known::Over, "discard"),
    ("of a session that was refused", Known::Refused, "discard"),
    (
        "of a request for no session",
        Known::Other,
        "end the stream",
    ),
    ("of an ID that no session has", Known::Impossible, "discard"),
];

#[test]
fn datagrams_go_by_what_is_known_of_the_session(rt: HostRuntime) {
    for (case, known, wanted) in &USES {
        let came = match known.datagram_for() {
            DatagramFor::Deliver => "deliver",
            DatagramFor::Early => "early",
            DatagramFor::Discard => "discard",
            DatagramFor::EndStream => "end the stream",
        };
        assert_same(&rt, came, *wanted, *case);
    }
}
