//! Messages that end or are reset before or after their HEADERS (RFC 9114, sections 4.1, 4.1.1 and
//! 7.1).
use crate::reading::{connection_of, read};
use crate::same::assert_same;
use std::process::Abort;
use wtp_connection::connection::Connection;
use wtp_connection::fault::Fault;
use wtp_connection::stream::Stream;
use wtp_core::error::ErrorScope;
use wtp_frames::endpoint::{Endpoint, Side};

/// The start of a message.
struct Row {
    /// What it case.
    case: &'static str,
    /// Whether it is a request to a server; otherwise a response to a client.
    server: bool,
    /// Its bytes.
    bytes: &'static [u8],
    /// The code of the error if it ends after them; 0 if there is none.
    end: u64,
    /// Whether that error ends the connection.
    ends_connection: bool,
    /// The code of the error if it is reset after them, which ends this stream alone; 0 if there is
    /// none.
    reset: u64,
}

/// Messages by how much of them came.
static ROWS: [Row; 12] = [
    Row {
        case: "a request without bytes (4.1)",
        server: true,
        bytes: &[],
        end: 0x10d,
        ends_connection: false,
        reset: 0x10d,
    },
    Row {
        case: "a request within its first number (7.1)",
        server: true,
        bytes: &[0x40],
        end: 0x106,
        ends_connection: true,
        reset: 0x10d,
    },
    Row {
        case: "a request with an unknown frame alone (4.1)",
        server: true,
        bytes: &[0x21, 0x01, 0x00],
        end: 0x10d,
        ends_connection: false,
        reset: 0x10d,
    },
    Row {
        case: "a request within an unknown frame (7.1)",
        server: true,
        bytes: &[0x21, 0x05, 0x00],
        end: 0x106,
        ends_connection: true,
        reset: 0x10d,
    },
    Row {
        case: "a request within HEADERS (7.1)",
        server: true,
        bytes: &[0x01, 0x02, 0xd1],
        end: 0x106,
        ends_connection: true,
        reset: 0x10d,
    },
    Row {
        case: "a request after HEADERS",
        server: true,
        bytes: &[0x01, 0x01, 0xd1],
        end: 0,
        ends_connection: false,
        reset: 0,
    },
    Row {
        case: "a request within HEADERS that are too large",
        server: true,
        bytes: &[0x01, 0x80, 0x01, 0x00, 0x01, 0x00],
        end: 0x106,
        ends_connection: true,
        reset: 0,
    },
    Row {
        case: "a request within DATA (7.1)",
        server: true,
        bytes: &[0x01, 0x01, 0xd1, 0x00, 0x05, 0x61],
        end: 0x106,
        ends_connection: true,
        reset: 0,
    },
    Row {
        case: "a request within a frame after DATA (7.1)",
        server: true,
        bytes: &[0x01, 0x01, 0xd1, 0x00, 0x01, 0x61, 0x21, 0x02],
        end: 0x106,
        ends_connection: true,
        reset: 0,
    },
    Row {
        case: "a response without bytes (4.1.2)",
        server: false,
        bytes: &[],
        end: 0x10e,
        ends_connection: false,
        reset: 0,
    },
    Row {
        case: "a response within HEADERS (7.1)",
        server: false,
        bytes: &[0x01, 0x02, 0xd9],
        end: 0x106,
        ends_connection: true,
        reset: 0,
    },
    Row {
        case: "a response after HEADERS",
        server: false,
        bytes: &[0x01, 0x01, 0xd9],
        end: 0,
        ends_connection: false,
        reset: 0,
    },
];

/// Returns a connection, and the stream of a request or a response.
fn message(server: bool) -> (Connection, Stream) {
    let connection = connection_of(server, true);
    if server {
        return (connection, Stream::of_peer(0));
    }
    let stream = Stream::of_request(Endpoint::new(Side::Client));
    (connection, stream)
}

fn error_of(fault: Option<Fault>) -> (u64, bool) {
    match fault {
        None => (0, false),
        Some(fault) => (
            fault.code().number().into_inner(),
            matches!(fault.scope(), ErrorScope::Connection),
        ),
    }
}

#[test]
fn a_message_may_end_after_its_headers(rt: HostRuntime) {
    for row in &ROWS {
        for size in 1..4usize {
            let (mut connection, mut stream) = message(row.server);
            let came = read(&mut connection, &mut stream, row.bytes, size, true);
            assert_same(
                &rt,
                (came.code, came.ends_connection),
                (row.end, row.ends_connection),
                row.case,
            );
        }
    }
}

#[test]
fn a_request_is_reset_before_its_headers(rt: HostRuntime) {
    for row in &ROWS {
        for size in 1..4usize {
            let (mut connection, mut stream) = message(row.server);
            read(&mut connection, &mut stream, row.bytes, size, false);
            let came = error_of(connection.reset(&mut stream));
            assert_same(&rt, came, (row.reset, false), row.case);
            let again = error_of(connection.reset(&mut stream));
            assert_same(&rt, again, (0, false), row.case);
        }
    }
}

#[test]
fn a_connect_that_is_answered_has_data_alone(rt: HostRuntime) {
    for server in [false, true] {
        let (mut connection, mut stream) = message(server);
        let start = [0x01, 0x01, 0xd1, 0x00, 0x03, 1];
        read(&mut connection, &mut stream, &start, 64, false);
        stream.tunnel();
        assert_same(&rt, stream.remaining(), 2, "within DATA");
        let data = read(&mut connection, &mut stream, &[2, 3, 0x21, 0x00], 1, false);
        assert_same(&rt, (data.data, data.code), (2, 0), "the rest of it");
        assert_same(&rt, stream.remaining(), 0, "after it");
        let came = read(&mut connection, &mut stream, &[0x01, 0x00], 64, false);
        assert_same(
            &rt,
            (came.code, came.ends_connection),
            (0x105, true),
            "trailers (4.4)",
        );
    }
}
