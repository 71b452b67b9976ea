//! Control streams by the rule of the standard that they violate, whole and cut.
use crate::reading::{CONTROL, Row, check_rows};

/// Control streams by the rule of RFC 9114 that they violate. Each ends, which is an error too.
static CONTROL_STREAMS: [Row; 37] = [
    Row {
        case: "GOAWAY before SETTINGS (6.2.1)",
        bytes: &[0x07, 0x01, 0x00],
        code: 0x10a,
        ..CONTROL
    },
    Row {
        case: "a reserved frame before SETTINGS (6.2.1)",
        bytes: &[0x21, 0x00],
        code: 0x10a,
        ..CONTROL
    },
    Row {
        case: "a frame of HTTP/2 before SETTINGS (6.2.1)",
        bytes: &[0x02, 0x00],
        code: 0x10a,
        ..CONTROL
    },
    Row {
        case: "SETTINGS above 4096 bytes (10.5)",
        bytes: &[0x04, 0x50, 0x01],
        code: 0x107,
        ..CONTROL
    },
    Row {
        case: "SETTINGS twice (7.2.4)",
        bytes: &[0x04, 0x00, 0x04, 0x00],
        frames: 1,
        code: 0x105,
        ..CONTROL
    },
    Row {
        case: "DATA on a control stream (7.2.1)",
        bytes: &[0x04, 0x00, 0x00, 0x00],
        frames: 1,
        code: 0x105,
        ..CONTROL
    },
    Row {
        case: "HEADERS on a control stream (7.2.2)",
        bytes: &[0x04, 0x00, 0x01, 0x00],
        frames: 1,
        code: 0x105,
        ..CONTROL
    },
    Row {
        case: "PUSH_PROMISE on a control stream (7.2.5)",
        server: false,
        bytes: &[0x04, 0x00, 0x05, 0x01, 0x00],
        frames: 1,
        code: 0x105,
        ..CONTROL
    },
    Row {
        case: "CONTINUATION on a control stream (7.2.8)",
        server: false,
        bytes: &[0x04, 0x00, 0x09, 0x00],
        frames: 1,
        code: 0x105,
        ..CONTROL
    },
    Row {
        case: "PRIORITY of HTTP/2 on a control stream (7.2.8)",
        bytes: &[0x04, 0x00, 0x02, 0x00],
        frames: 1,
        code: 0x105,
        ..CONTROL
    },
    Row {
        case: "PING of HTTP/2 on a control stream (7.2.8)",
        bytes: &[0x04, 0x00, 0x06, 0x00],
        frames: 1,
        code: 0x105,
        ..CONTROL
    },
    Row {
        case: "WINDOW_UPDATE of HTTP/2 on a control stream (7.2.8)",
        bytes: &[0x04, 0x00, 0x08, 0x00],
        frames: 1,
        code: 0x105,
        ..CONTROL
    },
    Row {
        case: "HEADERS before SETTINGS (6.2.1)",
        bytes: &[0x01, 0x01, 0xd1],
        code: 0x10a,
        ..CONTROL
    },
    Row {
        case: "0x41 is an unknown frame without WebTransport (9)",
        bytes: &[0x04, 0x00, 0x40, 0x41, 0x02, 0xaa, 0xbb, 0x07, 0x01, 0x00],
        frames: 2,
        whole: 1,
        code: 0x104,
        ..CONTROL
    },
    Row {
        case: "ORIGIN, ACCEPT_CH and two of PRIORITY_UPDATE are unknown frames (9)",
        bytes: &[
            0x04, 0x00, 0x0c, 0x01, 0xaa, 0x40, 0x89, 0x00, 0x80, 0x0f, 0x07, 0x00, 0x01, 0x00,
            0x80, 0x0f, 0x07, 0x01, 0x02, 0x00, 0x75, 0x07, 0x01, 0x00,
        ],
        frames: 2,
        whole: 1,
        code: 0x104,
        ..CONTROL
    },
    Row {
        case: "GOAWAY of a unidirectional stream (7.2.6)",
        server: false,
        bytes: &[0x04, 0x00, 0x07, 0x01, 0x02],
        frames: 1,
        code: 0x108,
        ..CONTROL
    },
    Row {
        case: "MAX_PUSH_ID with more than an ID (7.1)",
        bytes: &[0x04, 0x00, 0x0d, 0x02, 0x05, 0x00],
        frames: 1,
        code: 0x106,
        ..CONTROL
    },
    Row {
        case: "0x41 on a control stream, WebTransport enabled",
        webtransport: true,
        bytes: &[0x04, 0x00, 0x40, 0x41, 0x00],
        frames: 1,
        code: 0x106,
        ..CONTROL
    },
    Row {
        case: "GOAWAY without an ID (7.1)",
        bytes: &[0x04, 0x00, 0x07, 0x00],
        frames: 1,
        code: 0x106,
        ..CONTROL
    },
    Row {
        case: "GOAWAY with more than an ID (7.1)",
        bytes: &[0x04, 0x00, 0x07, 0x02, 0x00, 0x00],
        frames: 1,
        code: 0x106,
        ..CONTROL
    },
    Row {
        case: "GOAWAY of nine bytes (7.1)",
        bytes: &[0x04, 0x00, 0x07, 0x09],
        frames: 1,
        code: 0x106,
        ..CONTROL
    },
    Row {
        case: "CANCEL_PUSH with half an ID (7.1)",
        bytes: &[0x04, 0x00, 0x03, 0x01, 0x40],
        frames: 1,
        code: 0x106,
        ..CONTROL
    },
    Row {
        case: "CANCEL_PUSH without an ID (7.1)",
        bytes: &[0x04, 0x00, 0x03, 0x00],
        frames: 1,
        code: 0x106,
        ..CONTROL
    },
    Row {
        case: "CANCEL_PUSH with more than an ID (7.1)",
        bytes: &[0x04, 0x00, 0x03, 0x02, 0x00, 0x00],
        frames: 1,
        code: 0x106,
        ..CONTROL
    },
    Row {
        case: "GOAWAY with half an ID (7.1)",
        bytes: &[0x04, 0x00, 0x07, 0x01, 0x40],
        frames: 1,
        code: 0x106,
        ..CONTROL
    },
    Row {
        case: "MAX_PUSH_ID with half an ID (7.1)",
        bytes: &[0x04, 0x00, 0x0d, 0x01, 0x40],
        frames: 1,
        code: 0x106,
        ..CONTROL
    },
    Row {
        case: "MAX_PUSH_ID of nine bytes (7.1)",
        bytes: &[0x04, 0x00, 0x0d, 0x09],
        frames: 1,
        code: 0x106,
        ..CONTROL
    },
    Row {
        case: "CANCEL_PUSH of a push that was not promised (7.2.3)",
        bytes: &[0x04, 0x00, 0x03, 0x01, 0x00],
        frames: 1,
        code: 0x108,
        ..CONTROL
    },
    Row {
        case: "CANCEL_PUSH to a client that allows none (7.2.3)",
        server: false,
        bytes: &[0x04, 0x00, 0x03, 0x01, 0x00],
        frames: 1,
        code: 0x108,
        ..CONTROL
    },
    Row {
        case: "MAX_PUSH_ID to a client (7.2.7)",
        server: false,
        bytes: &[0x04, 0x00, 0x0d, 0x01, 0x00],
        frames: 1,
        code: 0x105,
        ..CONTROL
    },
    Row {
        case: "MAX_PUSH_ID without an ID (7.1)",
        bytes: &[0x04, 0x00, 0x0d, 0x00],
        frames: 1,
        code: 0x106,
        ..CONTROL
    },
    Row {
        case: "MAX_PUSH_ID falls (7.2.7)",
        bytes: &[0x04, 0x00, 0x0d, 0x01, 0x05, 0x0d, 0x01, 0x04],
        frames: 2,
        whole: 1,
        code: 0x108,
        ..CONTROL
    },
    Row {
        case: "GOAWAY of a server's stream (7.2.6)",
        server: false,
        bytes: &[0x04, 0x00, 0x07, 0x01, 0x01],
        frames: 1,
        code: 0x108,
        ..CONTROL
    },
    Row {
        case: "GOAWAY rises (5.2)",
        server: false,
        bytes: &[0x04, 0x00, 0x07, 0x01, 0x04, 0x07, 0x01, 0x08],
        frames: 2,
        whole: 1,
        code: 0x108,
        ..CONTROL
    },
    Row {
        case: "GOAWAY of a push, to a server, rises (5.2)",
        bytes: &[0x04, 0x00, 0x07, 0x01, 0x01, 0x07, 0x01, 0x02],
        frames: 2,
        whole: 1,
        code: 0x108,
        ..CONTROL
    },
    Row {
        case: "a control stream ends after equal IDs (6.2.1)",
        bytes: &[
            0x04, 0x00, 0x0d, 0x01, 0x05, 0x0d, 0x01, 0x05, 0x07, 0x01, 0x03, 0x07, 0x01, 0x03,
            0x07, 0x01, 0x01,
        ],
        frames: 6,
        whole: 5,
        code: 0x104,
        ..CONTROL
    },
    Row {
        case: "a control stream ends within a frame (6.2.1)",
        bytes: &[0x04, 0x02],
        code: 0x104,
        ..CONTROL
    },
];

#[test]
fn control_streams_have_their_codes(rt: HostRuntime) {
    check_rows(&rt, &CONTROL_STREAMS);
}
