//! Messages by the rule of the standard that they keep or violate, whole and cut.
use crate::reading::{REFUSED_REQUEST, REQUEST, Row, check_rows};

/// Messages by the rule of RFC 9114 that they keep or violate. A row that has no code is read to
/// its end.
static MESSAGES: [Row; 27] = [
    Row {
        case: "DATA before HEADERS (RFC 9114, 4.1)",
        bytes: &[0x00, 0x01, 0xaa],
        code: 0x105,
        ..REFUSED_REQUEST
    },
    Row {
        case: "DATA after trailers (4.1)",
        bytes: &[
            0x01, 0x01, 0xd1, 0x00, 0x01, 0xaa, 0x01, 0x01, 0xd2, 0x00, 0x01, 0x00,
        ],
        frames: 2,
        whole: 2,
        data: 1,
        code: 0x105,
        ..REFUSED_REQUEST
    },
    Row {
        case: "HEADERS after trailers (4.1)",
        server: false,
        bytes: &[0x01, 0x01, 0xd9, 0x01, 0x01, 0xd2, 0x01, 0x01, 0xd2],
        frames: 2,
        whole: 2,
        code: 0x105,
        ..REFUSED_REQUEST
    },
    Row {
        case: "CANCEL_PUSH on a request's stream (7.2.3)",
        bytes: &[0x03, 0x01, 0x00],
        code: 0x105,
        ..REFUSED_REQUEST
    },
    Row {
        case: "SETTINGS on a request's stream (7.2.4)",
        bytes: &[0x01, 0x01, 0xd1, 0x04, 0x00],
        frames: 1,
        whole: 1,
        code: 0x105,
        ..REFUSED_REQUEST
    },
    Row {
        case: "GOAWAY on a request's stream (7.2.6)",
        bytes: &[0x01, 0x01, 0xd1, 0x07, 0x01, 0x00],
        frames: 1,
        whole: 1,
        code: 0x105,
        ..REFUSED_REQUEST
    },
    Row {
        case: "MAX_PUSH_ID on a request's stream (7.2.7)",
        bytes: &[0x01, 0x01, 0xd1, 0x0d, 0x01, 0x00],
        frames: 1,
        whole: 1,
        code: 0x105,
        ..REFUSED_REQUEST
    },
    Row {
        case: "PUSH_PROMISE to a server (7.2.5)",
        bytes: &[0x01, 0x01, 0xd1, 0x05, 0x01, 0x00],
        frames: 1,
        whole: 1,
        code: 0x105,
        ..REFUSED_REQUEST
    },
    Row {
        case: "PUSH_PROMISE to a client (7.2.5)",
        server: false,
        bytes: &[0x01, 0x01, 0xd9, 0x05, 0x01, 0x00],
        frames: 1,
        whole: 1,
        code: 0x108,
        ..REFUSED_REQUEST
    },
    Row {
        case: "PRIORITY of HTTP/2 (7.2.8)",
        bytes: &[0x02, 0x00],
        code: 0x105,
        ..REFUSED_REQUEST
    },
    Row {
        case: "PING of HTTP/2 (7.2.8)",
        bytes: &[0x01, 0x01, 0xd1, 0x06, 0x00],
        frames: 1,
        whole: 1,
        code: 0x105,
        ..REFUSED_REQUEST
    },
    Row {
        case: "WINDOW_UPDATE of HTTP/2 (7.2.8)",
        bytes: &[0x01, 0x01, 0xd1, 0x08, 0x00],
        frames: 1,
        whole: 1,
        code: 0x105,
        ..REFUSED_REQUEST
    },
    Row {
        case: "CONTINUATION of HTTP/2 (7.2.8)",
        bytes: &[0x01, 0x01, 0xd1, 0x09, 0x00],
        frames: 1,
        whole: 1,
        code: 0x105,
        ..REFUSED_REQUEST
    },
    Row {
        case: "0x41 within a message, WebTransport enabled",
        webtransport: true,
        bytes: &[0x01, 0x01, 0xd1, 0x40, 0x41, 0x00],
        frames: 1,
        whole: 1,
        code: 0x106,
        ..REFUSED_REQUEST
    },
    Row {
        case: "0x41 after a reserved frame, WebTransport enabled",
        webtransport: true,
        bytes: &[0x21, 0x00, 0x40, 0x41, 0x00],
        code: 0x106,
        ..REFUSED_REQUEST
    },
    Row {
        case: "0x41 within a message is unknown otherwise (9)",
        bytes: &[0x01, 0x01, 0xd1, 0x40, 0x41, 0x01, 0x00, 0x00, 0x01, 0xaa],
        frames: 1,
        whole: 1,
        data: 1,
        ..REQUEST
    },
    Row {
        case: "a length in eight bytes",
        bytes: &[
            0x01, 0xc0, 0x00, 0x00, 0x00, 0x00, 0x00, 0x00, 0x01, 0xd1, 0x00, 0xc0, 0x00, 0x00,
            0x00, 0x00, 0x00, 0x00, 0x02, 0xaa, 0xbb,
        ],
        frames: 1,
        whole: 1,
        data: 2,
        ..REQUEST
    },
    Row {
        case: "reserved and unknown frames between (9)",
        bytes: &[
            0x21, 0x03, 0xaa, 0xbb, 0xcc, 0x01, 0x01, 0xd1, 0x40, 0x0f, 0x00, 0x00, 0x01, 0x01,
            0x0a, 0x01, 0x00, 0x01, 0x01, 0xd2, 0x21, 0x00,
        ],
        frames: 2,
        whole: 2,
        data: 1,
        ..REQUEST
    },
    Row {
        case: "PRIORITY_UPDATE is an unknown frame (9)",
        bytes: &[
            0x01, 0x01, 0xd1, 0x80, 0x0f, 0x07, 0x00, 0x01, 0x00, 0x00, 0x01, 0xaa,
        ],
        frames: 1,
        whole: 1,
        data: 1,
        ..REQUEST
    },
    Row {
        case: "DATA without bytes (7.2.1)",
        bytes: &[0x01, 0x01, 0xd1, 0x00, 0x00, 0x00, 0x00, 0x00, 0x01, 0x01],
        frames: 1,
        whole: 1,
        data: 1,
        ..REQUEST
    },
    Row {
        case: "no HEADERS of a request (4.1)",
        code: 0x10d,
        ..REQUEST
    },
    Row {
        case: "unknown frames alone are no request (4.1)",
        bytes: &[0x21, 0x00],
        code: 0x10d,
        ..REQUEST
    },
    Row {
        case: "no HEADERS of a response (4.1.2)",
        server: false,
        bytes: &[0x21, 0x00],
        code: 0x10e,
        ..REQUEST
    },
    Row {
        case: "an end within a head (7.1)",
        bytes: &[0x01, 0x01, 0xd1, 0x00],
        frames: 1,
        whole: 1,
        code: 0x106,
        ..REFUSED_REQUEST
    },
    Row {
        case: "an end within HEADERS (7.1)",
        bytes: &[0x01, 0x02, 0xd1],
        code: 0x106,
        ..REFUSED_REQUEST
    },
    Row {
        case: "an end within DATA (7.1)",
        bytes: &[0x01, 0x01, 0xd1, 0x00, 0x03, 0xaa, 0xbb],
        frames: 1,
        whole: 1,
        data: 2,
        code: 0x106,
        ..REFUSED_REQUEST
    },
    Row {
        case: "an end within an unknown frame (7.1)",
        bytes: &[0x01, 0x01, 0xd1, 0x21, 0x03, 0xaa],
        frames: 1,
        whole: 1,
        code: 0x106,
        ..REFUSED_REQUEST
    },
];

#[test]
fn messages_have_their_codes(rt: HostRuntime) {
    check_rows(&rt, &MESSAGES);
}
