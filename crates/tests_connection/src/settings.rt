//! The settings of the peer: what they define, and which are refused (RFC 9114, sections 7.1,
//! 7.2.4, 7.2.4.1 and 10.5; RFC 8441, section 3; RFC 9297, section 2.1.1;
//! draft-ietf-webtrans-http3-02, section 3.1).
use crate::reading::{connection_of, read};
use crate::same::assert_same;
use std::process::Abort;
use wtp_connection::connection::{Connection, Found};
use wtp_connection::fields::Fields;
use wtp_connection::settings::PeerSettings;
use wtp_connection::stream::Stream;
use wtp_core::error::ErrorCode;
use wtp_wire::settings::{SettingPair, SettingPairs};

/// A control stream: SETTINGS, and GOAWAY after them.
struct Row {
    /// What it case.
    case: &'static str,
    /// Its bytes.
    bytes: &'static [u8],
    /// The code of the error, which ends the connection; 0 if there is none.
    code: u64,
}

/// SETTINGS by the rule that they keep or violate.
static ROWS: [Row; 32] = [
    Row {
        case: "no settings",
        bytes: &[0x00, 0x04, 0x00, 0x07, 0x01, 0x00],
        code: 0,
    },
    Row {
        case: "0x00 of HTTP/2 (7.2.4.1)",
        bytes: &[0x00, 0x04, 0x02, 0x00, 0x00, 0x07, 0x01, 0x00],
        code: 0x109,
    },
    Row {
        case: "0x02 of HTTP/2 (7.2.4.1)",
        bytes: &[0x00, 0x04, 0x02, 0x02, 0x01, 0x07, 0x01, 0x00],
        code: 0x109,
    },
    Row {
        case: "0x03 of HTTP/2 (7.2.4.1)",
        bytes: &[0x00, 0x04, 0x02, 0x03, 0x01, 0x07, 0x01, 0x00],
        code: 0x109,
    },
    Row {
        case: "0x04 of HTTP/2 (7.2.4.1)",
        bytes: &[0x00, 0x04, 0x02, 0x04, 0x01, 0x07, 0x01, 0x00],
        code: 0x109,
    },
    Row {
        case: "0x05 of HTTP/2, its number in four bytes (7.2.4.1)",
        bytes: &[
            0x00, 0x04, 0x05, 0x80, 0x00, 0x00, 0x05, 0x01, 0x07, 0x01, 0x00,
        ],
        code: 0x109,
    },
    Row {
        case: "0x01 twice (7.2.4)",
        bytes: &[0x00, 0x04, 0x04, 0x01, 0x00, 0x01, 0x00, 0x07, 0x01, 0x00],
        code: 0x109,
    },
    Row {
        case: "0x06 twice, the second time in two bytes (7.2.4)",
        bytes: &[
            0x00, 0x04, 0x05, 0x06, 0x10, 0x40, 0x06, 0x10, 0x07, 0x01, 0x00,
        ],
        code: 0x109,
    },
    Row {
        case: "0x07 twice, with others between (7.2.4)",
        bytes: &[
            0x00, 0x04, 0x08, 0x07, 0x00, 0x33, 0x01, 0x21, 0x00, 0x07, 0x01, 0x07, 0x01, 0x00,
        ],
        code: 0x109,
    },
    Row {
        case: "0x08 twice (7.2.4)",
        bytes: &[0x00, 0x04, 0x04, 0x08, 0x01, 0x08, 0x01, 0x07, 0x01, 0x00],
        code: 0x109,
    },
    Row {
        case: "0x33 twice (7.2.4)",
        bytes: &[0x00, 0x04, 0x04, 0x33, 0x00, 0x33, 0x01, 0x07, 0x01, 0x00],
        code: 0x109,
    },
    Row {
        case: "0x2b603742 twice (7.2.4)",
        bytes: &[
            0x00, 0x04, 0x0c, 0x33, 0x01, 0xab, 0x60, 0x37, 0x42, 0x01, 0xab, 0x60, 0x37, 0x42,
            0x01, 0x07, 0x01, 0x00,
        ],
        code: 0x109,
    },
    Row {
        case: "0xc671706a twice (7.2.4)",
        bytes: &[
            0x00, 0x04, 0x12, 0xc0, 0x00, 0x00, 0x00, 0xc6, 0x71, 0x70, 0x6a, 0x10, 0xc0, 0x00,
            0x00, 0x00, 0xc6, 0x71, 0x70, 0x6a, 0x10, 0x07, 0x01, 0x00,
        ],
        code: 0x109,
    },
    Row {
        case: "0x14e9cd29 twice (7.2.4)",
        bytes: &[
            0x00, 0x04, 0x0a, 0x94, 0xe9, 0xcd, 0x29, 0x01, 0x94, 0xe9, 0xcd, 0x29, 0x01, 0x07,
            0x01, 0x00,
        ],
        code: 0x109,
    },
    Row {
        case: "0x33 is 2 (RFC 9297, 2.1.1)",
        bytes: &[0x00, 0x04, 0x02, 0x33, 0x02, 0x07, 0x01, 0x00],
        code: 0x109,
    },
    Row {
        case: "0x08 is 2 (RFC 8441, 3)",
        bytes: &[0x00, 0x04, 0x02, 0x08, 0x02, 0x07, 0x01, 0x00],
        code: 0x109,
    },
    Row {
        case: "0x2b603742 is 2 (draft 02, 3.1)",
        bytes: &[
            0x00, 0x04, 0x07, 0x33, 0x01, 0xab, 0x60, 0x37, 0x42, 0x02, 0x07, 0x01, 0x00,
        ],
        code: 0x109,
    },
    Row {
        case: "0x2b603742 without 0x33",
        bytes: &[
            0x00, 0x04, 0x05, 0xab, 0x60, 0x37, 0x42, 0x01, 0x07, 0x01, 0x00,
        ],
        code: 0,
    },
    Row {
        case: "0x2b603742 where 0x33 is 0",
        bytes: &[
            0x00, 0x04, 0x07, 0x33, 0x00, 0xab, 0x60, 0x37, 0x42, 0x01, 0x07, 0x01, 0x00,
        ],
        code: 0,
    },
    Row {
        case: "0x2b603742 before 0x33",
        bytes: &[
            0x00, 0x04, 0x07, 0xab, 0x60, 0x37, 0x42, 0x01, 0x33, 0x01, 0x07, 0x01, 0x00,
        ],
        code: 0,
    },
    Row {
        case: "0x2b603742 is 0 without 0x33",
        bytes: &[
            0x00, 0x04, 0x05, 0xab, 0x60, 0x37, 0x42, 0x00, 0x07, 0x01, 0x00,
        ],
        code: 0,
    },
    Row {
        case: "an identifier without a value (7.1)",
        bytes: &[0x00, 0x04, 0x01, 0x06, 0x07, 0x01, 0x00],
        code: 0x106,
    },
    Row {
        case: "an identifier that is cut (7.1)",
        bytes: &[0x00, 0x04, 0x03, 0x33, 0x01, 0x40, 0x07, 0x01, 0x00],
        code: 0x106,
    },
    Row {
        case: "a value that is cut (7.1)",
        bytes: &[
            0x00, 0x04, 0x06, 0x33, 0x01, 0x06, 0xc0, 0x00, 0x00, 0x07, 0x01, 0x00,
        ],
        code: 0x106,
    },
    Row {
        case: "a value other than 0 and 1, before one that is cut",
        bytes: &[0x00, 0x04, 0x03, 0x33, 0x02, 0x06, 0x07, 0x01, 0x00],
        code: 0x109,
    },
    Row {
        case: "one that is cut, after which nothing is missed",
        bytes: &[
            0x00, 0x04, 0x06, 0xab, 0x60, 0x37, 0x42, 0x01, 0x06, 0x07, 0x01, 0x00,
        ],
        code: 0x106,
    },
    Row {
        case: "an unknown identifier with any value (7.2.4)",
        bytes: &[
            0x00, 0x04, 0x0c, 0x40, 0xff, 0xff, 0xff, 0xff, 0xff, 0xff, 0xff, 0xff, 0xff, 0x0d,
            0x02, 0x07, 0x01, 0x00,
        ],
        code: 0,
    },
    Row {
        case: "a reserved identifier twice (7.2.4.1)",
        bytes: &[0x00, 0x04, 0x04, 0x21, 0x05, 0x21, 0x06, 0x07, 0x01, 0x00],
        code: 0,
    },
    Row {
        case: "SETTINGS_H3_DATAGRAM of an older draft with another value",
        bytes: &[
            0x00, 0x04, 0x05, 0x80, 0xff, 0xd2, 0x77, 0x02, 0x07, 0x01, 0x00,
        ],
        code: 0,
    },
    Row {
        case: "the largest limit of a section, as curl sends it",
        bytes: &[
            0x00, 0x04, 0x0d, 0x06, 0xff, 0xff, 0xff, 0xff, 0xff, 0xff, 0xff, 0xff, 0x01, 0x00,
            0x07, 0x00, 0x07, 0x01, 0x00,
        ],
        code: 0,
    },
    Row {
        case: "0xc671706a and 0x14e9cd29 need nothing else",
        bytes: &[
            0x00, 0x04, 0x0e, 0xc0, 0x00, 0x00, 0x00, 0xc6, 0x71, 0x70, 0x6a, 0x10, 0x94, 0xe9,
            0xcd, 0x29, 0x01, 0x07, 0x01, 0x00,
        ],
        code: 0,
    },
    Row {
        case: "SETTINGS of 4,097 bytes (10.5)",
        bytes: &[0x00, 0x04, 0x50, 0x01],
        code: 0x107,
    },
];

/// Asserts what comes of a control stream of which `size` bytes come at a time.
fn check_row<R: Abort>(rt: &R, row: &Row, size: usize) {
    let mut connection = connection_of(true, true);
    let mut stream = Stream::of_peer(2);
    let came = read(&mut connection, &mut stream, row.bytes, size, false);
    let frames = if row.code == 0 { 2 } else { 0 };
    assert_same(
        rt,
        (came.code, came.ends_connection, came.frames, came.left),
        (row.code, row.code != 0, frames, 0),
        row.case,
    );
}

#[test]
fn settings_are_taken_or_refused(rt: HostRuntime) {
    for row in &ROWS {
        check_row(&rt, row, 1);
        check_row(&rt, row, 3);
        check_row(&rt, row, 64);
    }
}

/// Returns a connection whose peer sent this control stream.
fn told(bytes: &[u8]) -> Connection {
    let mut connection = connection_of(true, true);
    let mut stream = Stream::of_peer(2);
    read(&mut connection, &mut stream, bytes, 64, false);
    connection
}

/// The numbers of settings: of 0x01, 0x06, 0x07, 0xc671706a and 0x14e9cd29.
pub(crate) fn numbers(settings: PeerSettings) -> (u64, Option<u64>, u64, u64, u64) {
    (
        settings.qpack_max_table_capacity,
        settings.max_field_section_size,
        settings.qpack_blocked_streams,
        settings.webtransport_max_sessions,
        settings.wt_max_sessions,
    )
}

/// Whether 0x08, 0x33 and 0x2b603742 are 1.
pub(crate) fn flags(settings: PeerSettings) -> (bool, bool, bool) {
    (
        settings.enable_connect_protocol,
        settings.h3_datagram,
        settings.enable_webtransport,
    )
}

/// Asserts the settings after a control stream.
fn check_values<R: Abort>(
    rt: &R,
    case: &'static str,
    bytes: &[u8],
    wanted: (u64, Option<u64>, u64, u64, u64),
    wanted_flags: (bool, bool, bool),
) {
    let settings = told(bytes).peer_settings();
    assert_same(rt, numbers(settings), wanted, case);
    assert_same(rt, flags(settings), wanted_flags, case);
}

/// SETTINGS of Chromium 156, with reserved ones.
const CHROMIUM: [u8; 53] = [
    0x00, 0x04, 0x32, 0x01, 0x80, 0x01, 0x00, 0x00, 0x06, 0x80, 0x00, 0x40, 0x00, 0x07, 0x40, 0x64,
    0x33, 0x01, 0x80, 0xff, 0xd2, 0x77, 0x01, 0xab, 0x60, 0x37, 0x42, 0x01, 0xc0, 0x00, 0x00, 0x00,
    0xc6, 0x71, 0x70, 0x6a, 0x10, 0xc0, 0x00, 0x00, 0x18, 0x89, 0xc2, 0x49, 0xb7, 0xc0, 0x00, 0x00,
    0x00, 0xb6, 0x10, 0xa4, 0xb3,
];

/// SETTINGS of aioquic 1.2.0.
const AIOQUIC: [u8; 22] = [
    0x00, 0x04, 0x13, 0x01, 0x00, 0x07, 0x00, 0x08, 0x01, 0x21, 0x01, 0x33, 0x01, 0xc0, 0x00, 0x00,
    0x00, 0xc6, 0x71, 0x70, 0x6a, 0x10,
];

/// SETTINGS of curl 8.14.1.
const CURL: [u8; 16] = [
    0x00, 0x04, 0x0d, 0x06, 0xff, 0xff, 0xff, 0xff, 0xff, 0xff, 0xff, 0xff, 0x01, 0x00, 0x07, 0x00,
];

/// SETTINGS of nginx 1.26.3.
const NGINX: [u8; 9] = [0x00, 0x04, 0x06, 0x01, 0x50, 0x00, 0x07, 0x40, 0x80];

/// SETTINGS with 0x14e9cd29, 3, before 0x01, 5.
const LATER: [u8; 10] = [0x00, 0x04, 0x07, 0x94, 0xe9, 0xcd, 0x29, 0x03, 0x01, 0x05];

#[test]
fn settings_have_their_values_or_their_defaults(rt: HostRuntime) {
    let no_flags = (false, false, false);
    let defaults = (0, None, 0, 0, 0);
    check_values(&rt, "before SETTINGS", &[0x00], defaults, no_flags);
    check_values(&rt, "no settings", &[0x00, 0x04, 0x00], defaults, no_flags);
    let chromium = (65_536, Some(16_384), 100, 16, 0);
    check_values(&rt, "Chromium", &CHROMIUM, chromium, (false, true, true));
    let aioquic = (0, None, 0, 16, 0);
    check_values(&rt, "aioquic", &AIOQUIC, aioquic, (true, true, false));
    let curl = (0, Some(0x3fff_ffff_ffff_ffff), 0, 0, 0);
    check_values(&rt, "curl", &CURL, curl, no_flags);
    let nginx = (4096, None, 128, 0, 0);
    check_values(&rt, "nginx", &NGINX, nginx, no_flags);
    let later = (5, None, 0, 0, 3);
    check_values(&rt, "a later draft", &LATER, later, no_flags);
}

#[test]
fn refused_settings_change_none(rt: HostRuntime) {
    let refused = [0x00, 0x04, 0x04, 0x01, 0x05, 0x33, 0x02];
    let none = (0, None, 0, 0, 0);
    check_values(&rt, "0x33 is 2", &refused, none, (false, false, false));
}

/// Returns the identifier and the value of a setting, or zeros.
fn number_and_value(item: Option<Result<SettingPair, ErrorCode>>) -> (u64, u64) {
    match item {
        Some(Ok(pair)) => (pair.id.into_inner(), pair.value.into_inner()),
        _ => (0, 0),
    }
}

#[test]
fn unknown_settings_are_in_the_bytes(rt: HostRuntime) {
    let mut connection = connection_of(true, true);
    let mut stream = Stream::of_peer(2);
    let mut fields = Fields::new();
    connection.receive(&mut stream, &[0x00], false, &mut fields);
    let bytes = [0x04, 0x05, 0x33, 0x01, 0x40, 0x21, 0x07];
    let payload = match connection.receive(&mut stream, &bytes, false, &mut fields) {
        Found::Settings(_, start, end) => bytes.get(start..end).unwrap_or(&[]),
        _ => &[],
    };
    let mut pairs = SettingPairs::new(payload);
    let first = number_and_value(pairs.next());
    let second = number_and_value(pairs.next());
    assert_same(&rt, (first, second), ((0x33, 1), (0x21, 7)), "both pairs");
    assert_same(&rt, fields.insert_count(), 0, "no entry is inserted");
}
