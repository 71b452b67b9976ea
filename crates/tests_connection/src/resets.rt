//! Streams that are reset by the peer, or that the application reads no further (RFC 9114, sections
//! 4.1 and 6.2.1; RFC 9204, section 4.2).
use crate::reading::{connection_of, read};
use crate::same::assert_same;
use std::process::Abort;
use wtp_connection::connection::{Connection, Known};
use wtp_connection::fault::Fault;
use wtp_connection::stream::Stream;
use wtp_core::error::ErrorScope;

/// A stream that is reset.
struct Row {
    /// What it case.
    case: &'static str,
    /// Its ID.
    id: u64,
    /// The bytes that came before.
    bytes: &'static [u8],
    /// The code of the error; 0 if there is none. The error 0x104 ends the connection.
    code: u64,
}

/// Streams of a client, by what they are for.
static ROWS: [Row; 12] = [
    Row {
        case: "a control stream before SETTINGS (6.2.1)",
        id: 2,
        bytes: &[0x00],
        code: 0x104,
    },
    Row {
        case: "a control stream after SETTINGS (6.2.1)",
        id: 2,
        bytes: &[0x00, 0x04, 0x00],
        code: 0x104,
    },
    Row {
        case: "a control stream within a frame (6.2.1)",
        id: 2,
        bytes: &[0x00, 0x04, 0x00, 0x21, 0x05, 0x00],
        code: 0x104,
    },
    Row {
        case: "an encoder stream (RFC 9204, 4.2)",
        id: 2,
        bytes: &[0x02],
        code: 0x104,
    },
    Row {
        case: "a decoder stream (RFC 9204, 4.2)",
        id: 2,
        bytes: &[0x03],
        code: 0x104,
    },
    Row {
        case: "a stream before its type (6.2)",
        id: 2,
        bytes: &[],
        code: 0,
    },
    Row {
        case: "a stream before its session (6.2)",
        id: 2,
        bytes: &[0x40, 0x54],
        code: 0,
    },
    Row {
        case: "a stream of an unknown type (6.2)",
        id: 2,
        bytes: &[0x21, 0x00],
        code: 0,
    },
    Row {
        case: "a request before its first byte (4.1.1)",
        id: 0,
        bytes: &[],
        code: 0x10d,
    },
    Row {
        case: "a request within an unknown frame (4.1.1)",
        id: 0,
        bytes: &[0x21, 0x05, 0x00],
        code: 0x10d,
    },
    Row {
        case: "a request within DATA (7.1)",
        id: 0,
        bytes: &[0x01, 0x01, 0xd1, 0x00, 0x05, 0x61],
        code: 0,
    },
    Row {
        case: "a stream of a session that was not joined",
        id: 2,
        bytes: &[0x40, 0x54, 0x00, 0x61],
        code: 0,
    },
];

/// Returns the code, and whether the error ends the connection.
fn error_of(fault: Option<Fault>) -> (u64, bool) {
    match fault {
        None => (0, false),
        Some(fault) => (
            fault.code().number().into_inner(),
            matches!(fault.scope(), ErrorScope::Connection),
        ),
    }
}

/// Returns how many bytes of DATA the connection returns of another request.
fn data_of_another(connection: &mut Connection) -> usize {
    let mut other = Stream::of_peer(4);
    let bytes = [0x01, 0x01, 0xd1, 0x00, 0x01, 0x61];
    read(connection, &mut other, &bytes, 64, true).data
}

fn check_row<R: Abort>(rt: &R, row: &Row) {
    let mut connection = connection_of(true, true);
    let mut stream = Stream::of_peer(row.id);
    read(&mut connection, &mut stream, row.bytes, 64, false);
    let came = error_of(connection.reset(&mut stream));
    assert_same(rt, came, (row.code, row.code == 0x104), row.case);
    let again = error_of(connection.reset(&mut stream));
    assert_same(rt, again, (0, false), row.case);
    let later = read(&mut connection, &mut stream, &[0x00, 0x01], 64, true);
    assert_same(
        rt,
        (later.data, later.ends, later.left),
        (0, 0, 0),
        row.case,
    );
    let other = if row.code == 0x104 { 0 } else { 1 };
    assert_same(rt, data_of_another(&mut connection), other, row.case);
}

/// Asserts that a critical stream is read after it was abandoned, and that others are not.
fn check_abandoned<R: Abort>(rt: &R, row: &Row) {
    let mut connection = connection_of(true, true);
    let mut stream = Stream::of_peer(row.id);
    read(&mut connection, &mut stream, row.bytes, 64, false);
    connection.abandon(&mut stream);
    assert_same(rt, data_of_another(&mut connection), 1, row.case);
    let came = error_of(connection.reset(&mut stream));
    let wanted = if row.code == 0x104 {
        (0x104, true)
    } else {
        (0, false)
    };
    assert_same(rt, came, wanted, row.case);
}

#[test]
fn a_reset_ends_a_stream_or_the_connection(rt: HostRuntime) {
    for row in &ROWS {
        check_row(&rt, row);
        check_abandoned(&rt, row);
    }
}

/// A bidirectional stream of a server that is reset.
struct FromServer {
    /// What it case.
    case: &'static str,
    /// Whether the client enables WebTransport.
    webtransport: bool,
    /// The bytes that came before.
    bytes: &'static [u8],
    /// The code of the error in these bytes; 0 if there is none.
    read: u64,
    /// The code of the error of the reset; 0 if there is none.
    code: u64,
}

/// Streams that a server may open where WebTransport is enabled, and not else (6.1).
static FROM_SERVER: [FromServer; 4] = [
    FromServer {
        case: "before its first byte, without WebTransport",
        webtransport: false,
        bytes: &[],
        read: 0,
        code: 0x103,
    },
    FromServer {
        case: "in its first number, without WebTransport",
        webtransport: false,
        bytes: &[0x80],
        read: 0x103,
        code: 0,
    },
    FromServer {
        case: "before its first byte, with WebTransport",
        webtransport: true,
        bytes: &[],
        read: 0,
        code: 0,
    },
    FromServer {
        case: "before the ID of its session, with WebTransport",
        webtransport: true,
        bytes: &[0x40, 0x41],
        read: 0,
        code: 0,
    },
];

#[test]
fn a_server_resets_streams_that_it_may_open(rt: HostRuntime) {
    for row in &FROM_SERVER {
        let mut connection = connection_of(false, row.webtransport);
        let mut stream = Stream::of_peer(1);
        let came = read(&mut connection, &mut stream, row.bytes, 64, false);
        assert_same(&rt, came.code, row.read, row.case);
        let reset = error_of(connection.reset(&mut stream));
        assert_same(&rt, reset, (row.code, row.code != 0), row.case);
        let mut control = Stream::of_peer(3);
        let settings = read(
            &mut connection,
            &mut control,
            &[0x00, 0x04, 0x00],
            64,
            false,
        );
        let goes_on = row.read == 0 && row.code == 0;
        assert_same(&rt, settings.frames == 1, goes_on, row.case);
    }
}

/// Returns a stream that waits for session 0.
fn waiting(connection: &mut Connection, id: u64) -> Stream {
    let mut stream = Stream::of_peer(id);
    let bytes = [0x40, 0x54, 0x00, 1];
    read(connection, &mut stream, &bytes, 64, false);
    connection.join(&mut stream, Known::Coming);
    stream
}

#[test]
fn a_stream_that_waits_gives_its_place_back(rt: HostRuntime) {
    let mut connection = connection_of(true, true);
    for turn in 0..40u64 {
        let mut first = waiting(&mut connection, 6);
        let mut second = waiting(&mut connection, 10);
        assert_same(&rt, connection.waiting(), 2, turn);
        let came = error_of(connection.reset(&mut first));
        assert_same(&rt, (came, connection.waiting()), ((0, false), 1), turn);
        connection.abandon(&mut second);
        assert_same(&rt, connection.waiting(), 0, turn);
        connection.abandon(&mut second);
        connection.reset(&mut first);
        assert_same(&rt, connection.waiting(), 0, turn);
        assert_same(&rt, second.waits().is_none(), true, turn);
    }
}
