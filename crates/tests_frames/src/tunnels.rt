//! Streams of CONNECT requests that are answered with a 2xx status (RFC 9114, section 4.4).
use crate::same::assert_same;
use wtp_frames::endpoint::{Endpoint, Side};
use wtp_frames::fault::Fault;
use wtp_frames::reader::{Reader, Step};

/// A frame after the HEADERS of such a message.
struct Row {
    case: &'static str,
    /// Whether the own settings enable WebTransport.
    webtransport: bool,
    bytes: &'static [u8],
    /// The code of its error, at a client and at a server; 0 if there is none.
    code: u64,
}

/// The rows: each type of frame.
static ROWS: [Row; 15] = [
    Row {
        case: "DATA",
        webtransport: false,
        bytes: &[0x00, 0x01, 0xaa],
        code: 0,
    },
    Row {
        case: "DATA without bytes",
        webtransport: false,
        bytes: &[0x00, 0x00],
        code: 0,
    },
    Row {
        case: "a reserved frame (9)",
        webtransport: false,
        bytes: &[0x21, 0x01, 0xaa],
        code: 0,
    },
    Row {
        case: "trailers",
        webtransport: false,
        bytes: &[0x01, 0x01, 0xd2],
        code: 0x105,
    },
    Row {
        case: "CANCEL_PUSH",
        webtransport: false,
        bytes: &[0x03, 0x01, 0x00],
        code: 0x105,
    },
    Row {
        case: "SETTINGS",
        webtransport: false,
        bytes: &[0x04, 0x00],
        code: 0x105,
    },
    Row {
        case: "PUSH_PROMISE",
        webtransport: false,
        bytes: &[0x05, 0x01, 0x00],
        code: 0x105,
    },
    Row {
        case: "GOAWAY",
        webtransport: false,
        bytes: &[0x07, 0x01, 0x00],
        code: 0x105,
    },
    Row {
        case: "MAX_PUSH_ID",
        webtransport: false,
        bytes: &[0x0d, 0x01, 0x00],
        code: 0x105,
    },
    Row {
        case: "PRIORITY of HTTP/2 (7.2.8)",
        webtransport: false,
        bytes: &[0x02, 0x00],
        code: 0x105,
    },
    Row {
        case: "PING of HTTP/2 (7.2.8)",
        webtransport: false,
        bytes: &[0x06, 0x00],
        code: 0x105,
    },
    Row {
        case: "WINDOW_UPDATE of HTTP/2 (7.2.8)",
        webtransport: false,
        bytes: &[0x08, 0x00],
        code: 0x105,
    },
    Row {
        case: "CONTINUATION of HTTP/2 (7.2.8)",
        webtransport: false,
        bytes: &[0x09, 0x00],
        code: 0x105,
    },
    Row {
        case: "0x41, WebTransport enabled",
        webtransport: true,
        bytes: &[0x40, 0x41, 0x00],
        code: 0x106,
    },
    Row {
        case: "0x41 is an unknown frame otherwise (9)",
        webtransport: false,
        bytes: &[0x40, 0x41, 0x00],
        code: 0,
    },
];

/// Returns the code of the error that a frame is; 0 if it is none.
fn code_of(step: Step) -> u64 {
    match step {
        Step::Fault(fault) => fault.code().number().into_inner(),
        _ => 0,
    }
}

/// Returns the code of an error at the end; 0 if there is none.
fn end_of(end: Result<(), Fault>) -> u64 {
    match end {
        Ok(()) => 0,
        Err(fault) => fault.code().number().into_inner(),
    }
}

/// Returns the reader of such a message after its HEADERS.
fn tunnel(server: bool, webtransport: bool) -> Reader {
    let side = if server { Side::Server } else { Side::Client };
    let mut endpoint = Endpoint::new(side);
    endpoint.webtransport = webtransport;
    let mut reader = Reader::message(endpoint);
    reader.next(&[0x01, 0x01, 0xd1]);
    reader.tunnel();
    reader
}

#[test]
fn a_tunnel_has_data_alone(rt: HostRuntime) {
    for row in &ROWS {
        for server in [false, true] {
            let mut reader = tunnel(server, row.webtransport);
            assert_same(&rt, code_of(reader.next(row.bytes)), row.code, row.case);
        }
    }
}

#[test]
fn a_tunnel_ends_between_its_frames(rt: HostRuntime) {
    let mut reader = tunnel(true, false);
    let before = end_of(reader.finish(0));
    reader.next(&[0x00, 0x03, 1]);
    let within = (reader.remaining(), end_of(reader.finish(0)));
    reader.next(&[2, 3]);
    let after = (reader.remaining(), end_of(reader.finish(0)));
    assert_same(&rt, before, 0, "without DATA");
    assert_same(&rt, within, (2, 0x106), "within DATA (7.1)");
    assert_same(&rt, after, (0, 0), "after DATA");
}

#[test]
fn other_messages_become_no_tunnel(rt: HostRuntime) {
    let mut early = Reader::message(Endpoint::new(Side::Server));
    early.tunnel();
    let section = matches!(early.next(&[0x01, 0x01, 0xd1]), Step::Frame(_, 2, 3));
    let trailers = matches!(early.next(&[0x01, 0x01, 0xd2]), Step::Frame(_, 2, 3));
    early.tunnel();
    let data = code_of(early.next(&[0x00, 0x01, 0xaa]));
    assert_same(
        &rt,
        (section, trailers),
        (true, true),
        "told before HEADERS",
    );
    assert_same(&rt, data, 0x105, "told after trailers");
}
