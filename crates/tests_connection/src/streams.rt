//! What streams of the peer are for, and what ends them (RFC 9114, sections 6.1 to 6.2.3).
use crate::reading::{NOTHING, Summary, connection_of, read};
use crate::same::assert_same;
use std::process::Abort;
use wtp_connection::stream::Stream;

/// A first stream, which is read whole and stays open, and a second one.
struct Row {
    /// What the second stream case.
    case: &'static str,
    /// Whether a server reads it; otherwise a client.
    server: bool,
    /// Whether the own settings enable WebTransport.
    webtransport: bool,
    /// The bytes of the first stream, which is unidirectional.
    before: &'static [u8],
    /// The ID of the second stream.
    id: u64,
    /// Its bytes.
    bytes: &'static [u8],
    /// Whether it ends.
    fin: bool,
    /// How many frames it has.
    frames: usize,
    /// How many bytes of DATA.
    data: usize,
    /// The code of its error; 0 if there is none.
    code: u64,
    /// How many bytes are left over.
    left: usize,
}

/// A stream that a client opens in one direction and that stays open, after a control stream, with
/// WebTransport disabled: the base of the rows.
const OPEN: Row = Row {
    case: "no byte",
    server: true,
    webtransport: false,
    before: &[0x00],
    id: 6,
    bytes: &[],
    fin: false,
    frames: 0,
    data: 0,
    code: 0,
    left: 0,
};

/// Streams by the rule that they keep or violate. All of these errors but those of a request that
/// is not complete end the connection.
static ROWS: [Row; 34] = [
    Row {
        case: "a second control stream (6.2.1)",
        bytes: &[0x00],
        code: 0x103,
        ..OPEN
    },
    Row {
        case: "a second encoder stream (RFC 9204, 4.2)",
        before: &[0x02],
        bytes: &[0x02],
        code: 0x103,
        ..OPEN
    },
    Row {
        case: "a second decoder stream (RFC 9204, 4.2)",
        before: &[0x03],
        bytes: &[0x03],
        code: 0x103,
        ..OPEN
    },
    Row {
        case: "a push stream to a server (6.2.2)",
        bytes: &[0x01, 0x00],
        code: 0x103,
        ..OPEN
    },
    Row {
        case: "a push stream to a client that allows none (4.6)",
        server: false,
        id: 7,
        bytes: &[0x01, 0x00],
        code: 0x108,
        ..OPEN
    },
    Row {
        case: "an unknown type (6.2)",
        bytes: &[0x40, 0x7e, 0x77],
        fin: true,
        ..OPEN
    },
    Row {
        case: "a reserved type (6.2.3)",
        bytes: &[0x21, 0x00, 0x00],
        fin: true,
        ..OPEN
    },
    Row {
        case: "0x54 without WebTransport (9)",
        bytes: &[0x40, 0x54, 0x00, 0x61],
        fin: true,
        ..OPEN
    },
    Row {
        case: "0x54 of a session that cannot be",
        webtransport: true,
        bytes: &[0x40, 0x54, 0x01],
        code: 0x108,
        ..OPEN
    },
    Row {
        case: "0x54 of a session that was not joined",
        webtransport: true,
        bytes: &[0x40, 0x54, 0x04, 0x61, 0x62, 0x63],
        left: 3,
        ..OPEN
    },
    Row {
        case: "a stream that ends before its type (6.2)",
        webtransport: true,
        bytes: &[0x40],
        fin: true,
        ..OPEN
    },
    Row {
        case: "a stream that ends before its session",
        webtransport: true,
        bytes: &[0x40, 0x54],
        fin: true,
        ..OPEN
    },
    Row {
        case: "a stream without bytes (6.2)",
        bytes: &[],
        fin: true,
        ..OPEN
    },
    Row {
        case: "a control stream that ends (6.2.1)",
        before: &[0x02],
        bytes: &[0x00, 0x04, 0x00],
        fin: true,
        frames: 1,
        code: 0x104,
        ..OPEN
    },
    Row {
        case: "an encoder stream that ends (RFC 9204, 4.2)",
        bytes: &[0x02],
        fin: true,
        code: 0x104,
        ..OPEN
    },
    Row {
        case: "0x41 of a session that was not joined",
        webtransport: true,
        id: 4,
        bytes: &[0x40, 0x41, 0x08, 0x61, 0x62],
        left: 2,
        ..OPEN
    },
    Row {
        case: "0x41 of a session that cannot be",
        webtransport: true,
        id: 4,
        bytes: &[0x40, 0x41, 0x02],
        code: 0x108,
        ..OPEN
    },
    Row {
        case: "0x41 of a server's stream",
        server: false,
        webtransport: true,
        id: 1,
        bytes: &[0x40, 0x41, 0x40, 0x04, 0x61],
        left: 1,
        ..OPEN
    },
    Row {
        case: "0x41 before a request, without WebTransport (9)",
        id: 4,
        bytes: &[0x40, 0x41, 0x01, 0x61, 0x01, 0x01, 0xd1],
        fin: true,
        frames: 1,
        ..OPEN
    },
    Row {
        case: "a decoder stream that ends (RFC 9204, 4.2)",
        before: &[0x02],
        bytes: &[0x03],
        fin: true,
        code: 0x104,
        ..OPEN
    },
    Row {
        case: "a request",
        webtransport: true,
        id: 4,
        bytes: &[0x01, 0x01, 0xd1, 0x00, 0x01, 0x61],
        fin: true,
        frames: 1,
        data: 1,
        ..OPEN
    },
    Row {
        case: "a request without bytes (4.1)",
        id: 4,
        bytes: &[],
        fin: true,
        code: 0x10d,
        ..OPEN
    },
    Row {
        case: "a request that ends in its first number (7.1)",
        id: 4,
        bytes: &[0x40],
        fin: true,
        code: 0x106,
        ..OPEN
    },
    Row {
        case: "a stream of a server without WebTransport (6.1)",
        server: false,
        id: 1,
        bytes: &[0x40, 0x41, 0x00],
        code: 0x103,
        ..OPEN
    },
    Row {
        case: "a request that ends in the ID of its session (7.1)",
        webtransport: true,
        id: 4,
        bytes: &[0x40, 0x41, 0x40],
        fin: true,
        code: 0x106,
        ..OPEN
    },
    Row {
        case: "a stream of a server without bytes (6.1)",
        server: false,
        id: 1,
        bytes: &[],
        fin: true,
        code: 0x103,
        ..OPEN
    },
    Row {
        case: "a stream of a server, by part of its first number (6.1)",
        server: false,
        id: 1,
        bytes: &[0x80],
        code: 0x103,
        ..OPEN
    },
    Row {
        case: "a stream of a server, by its first number (6.1)",
        server: false,
        id: 1,
        bytes: &[0x00],
        code: 0x103,
        ..OPEN
    },
    Row {
        case: "a stream of a server without bytes, with WebTransport (6.1)",
        server: false,
        webtransport: true,
        id: 1,
        bytes: &[],
        fin: true,
        ..OPEN
    },
    Row {
        case: "a stream of a server in its first number, with WebTransport",
        server: false,
        webtransport: true,
        id: 1,
        bytes: &[0x80],
        left: 1,
        ..OPEN
    },
    Row {
        case: "a stream of a server that ends in its first number (6.1)",
        server: false,
        id: 1,
        bytes: &[0x40],
        fin: true,
        code: 0x103,
        ..OPEN
    },
    Row {
        case: "the same with WebTransport",
        server: false,
        webtransport: true,
        id: 1,
        bytes: &[0x40],
        fin: true,
        code: 0x103,
        ..OPEN
    },
    Row {
        case: "a stream of a server that ends in the ID of its session (7.1)",
        server: false,
        webtransport: true,
        id: 1,
        bytes: &[0x40, 0x41, 0x80, 0x00],
        fin: true,
        code: 0x106,
        ..OPEN
    },
    Row {
        case: "another stream of a server with WebTransport",
        server: false,
        webtransport: true,
        id: 1,
        bytes: &[0x01, 0x00],
        code: 0x103,
        ..OPEN
    },
];

/// Asserts what is found on a row's second stream, of which `size` bytes come at a time.
fn check_row<R: Abort>(rt: &R, row: &Row, size: usize) {
    let mut connection = connection_of(row.server, row.webtransport);
    let mut first = Stream::of_peer(2);
    read(&mut connection, &mut first, row.before, 64, false);
    let mut second = Stream::of_peer(row.id);
    let came = read(&mut connection, &mut second, row.bytes, size, row.fin);
    let wanted = Summary {
        frames: row.frames,
        data: row.data,
        ends: if row.fin && row.code == 0 && row.left == 0 {
            1
        } else {
            0
        },
        code: row.code,
        ends_connection: row.code != 0 && row.code != 0x10d,
        left: row.left,
    };
    assert_same(rt, came, wanted, row.case);
}

#[test]
fn streams_have_their_purpose_and_their_end(rt: HostRuntime) {
    for row in &ROWS {
        for size in 1..8usize {
            check_row(&rt, row, size);
        }
        check_row(&rt, row, 64);
    }
}

#[test]
fn an_error_of_the_connection_ends_all_streams(rt: HostRuntime) {
    let mut connection = connection_of(true, true);
    let mut request = Stream::of_peer(0);
    let first = read(
        &mut connection,
        &mut request,
        &[0x01, 0x01, 0xd1, 0x00],
        64,
        false,
    );
    let mut control = Stream::of_peer(2);
    let second = read(
        &mut connection,
        &mut control,
        &[0x00, 0x21, 0x00],
        64,
        false,
    );
    let third = read(&mut connection, &mut request, &[0x00, 0x02, 1, 2], 64, true);
    assert_same(
        &rt,
        (first.frames, first.left),
        (1, 1),
        "a request before it",
    );
    assert_same(
        &rt,
        (second.code, second.ends_connection),
        (0x10a, true),
        "the error",
    );
    assert_same(&rt, third, NOTHING, "the request after it");
}
