//! SETTINGS of a server that accepted 0-RTT, beside those that the client remembers (RFC 9114, section
//! 7.2.4.2; RFC 9204, section 3.2.3; RFC 9297, section 2.1.1).
use crate::reading::{connection_of, read};
use crate::same::assert_same;
use crate::settings::{flags, numbers};
use std::process::Abort;
use wtp_connection::connection::Connection;
use wtp_connection::settings::PeerSettings;
use wtp_connection::stream::Stream;
use wtp_frames::endpoint::{Endpoint, Side};

/// The control stream of a session, that of the one that resumes it, and the code of its error; 0 if
/// there is none.
static ROWS: [(&str, &[u8], &[u8], u64); 24] = [
    ("no settings", &[0, 4, 0], &[0, 4, 0], 0),
    (
        "the same settings",
        &[0, 4, 8, 0x01, 9, 0x06, 9, 0x07, 9, 0x33, 1],
        &[0, 4, 8, 0x33, 1, 0x07, 9, 0x06, 9, 0x01, 9],
        0,
    ),
    (
        "a larger limit of sections (7.2.4.2)",
        &[0, 4, 2, 0x06, 9],
        &[0, 4, 2, 0x06, 10],
        0,
    ),
    (
        "a smaller limit of sections",
        &[0, 4, 2, 0x06, 9],
        &[0, 4, 2, 0x06, 8],
        0x109,
    ),
    (
        "a limit of sections that is left out",
        &[0, 4, 2, 0x06, 9],
        &[0, 4, 0],
        0x109,
    ),
    (
        "a limit of sections where there was none",
        &[0, 4, 0],
        &[0, 4, 2, 0x06, 9],
        0x109,
    ),
    (
        "more blocked streams",
        &[0, 4, 2, 0x07, 9],
        &[0, 4, 2, 0x07, 10],
        0,
    ),
    (
        "fewer blocked streams",
        &[0, 4, 2, 0x07, 9],
        &[0, 4, 2, 0x07, 8],
        0x109,
    ),
    (
        "blocked streams that are left out",
        &[0, 4, 2, 0x07, 9],
        &[0, 4, 0],
        0x109,
    ),
    (
        "a larger capacity (9204, 3.2.3)",
        &[0, 4, 2, 0x01, 9],
        &[0, 4, 2, 0x01, 10],
        0x202,
    ),
    (
        "a smaller capacity",
        &[0, 4, 2, 0x01, 9],
        &[0, 4, 2, 0x01, 8],
        0x202,
    ),
    (
        "a capacity that is left out",
        &[0, 4, 2, 0x01, 9],
        &[0, 4, 0],
        0x202,
    ),
    (
        "a capacity after the capacity 0",
        &[0, 4, 2, 0x01, 0],
        &[0, 4, 2, 0x01, 9],
        0,
    ),
    (
        "datagrams are no longer supported (9297, 2.1.1)",
        &[0, 4, 2, 0x33, 1],
        &[0, 4, 2, 0x33, 0],
        0x109,
    ),
    (
        "datagrams are left out",
        &[0, 4, 2, 0x33, 1],
        &[0, 4, 0],
        0x109,
    ),
    (
        "datagrams are supported now",
        &[0, 4, 2, 0x33, 0],
        &[0, 4, 2, 0x33, 1],
        0,
    ),
    (
        "extended CONNECT is left out",
        &[0, 4, 2, 0x08, 1],
        &[0, 4, 0],
        0x109,
    ),
    (
        "extended CONNECT is supported now",
        &[0, 4, 0],
        &[0, 4, 2, 0x08, 1],
        0,
    ),
    (
        "WebTransport is left out",
        &[0, 4, 5, 0xab, 0x60, 0x37, 0x42, 1],
        &[0, 4, 0],
        0x109,
    ),
    (
        "fewer sessions",
        &[0, 4, 9, 0xc0, 0, 0, 0, 0xc6, 0x71, 0x70, 0x6a, 9],
        &[0, 4, 9, 0xc0, 0, 0, 0, 0xc6, 0x71, 0x70, 0x6a, 8],
        0x109,
    ),
    (
        "more sessions",
        &[0, 4, 9, 0xc0, 0, 0, 0, 0xc6, 0x71, 0x70, 0x6a, 9],
        &[0, 4, 9, 0xc0, 0, 0, 0, 0xc6, 0x71, 0x70, 0x6a, 10],
        0,
    ),
    (
        "fewer sessions of a later draft",
        &[0, 4, 5, 0x94, 0xe9, 0xcd, 0x29, 9],
        &[0, 4, 5, 0x94, 0xe9, 0xcd, 0x29, 8],
        0x109,
    ),
    (
        "a reserved setting is left out",
        &[0, 4, 2, 0x21, 9],
        &[0, 4, 0],
        0,
    ),
    (
        "settings that are invalid by themselves",
        &[0, 4, 2, 0x01, 9],
        &[0, 4, 2, 0x33, 2],
        0x109,
    ),
];

/// Returns the settings of a server that sent this control stream.
fn settings_in(bytes: &[u8]) -> PeerSettings {
    let mut connection = connection_of(false, true);
    let mut stream = Stream::of_peer(3);
    read(&mut connection, &mut stream, bytes, 64, false);
    connection.peer_settings()
}

/// The values of all settings.
fn values(settings: PeerSettings) -> ((u64, Option<u64>, u64, u64, u64), (bool, bool, bool)) {
    (numbers(settings), flags(settings))
}

/// Asserts what comes of a control stream of which `size` bytes come at a time.
fn check_code<R: Abort>(
    rt: &R,
    connection: &mut Connection,
    bytes: &[u8],
    size: usize,
    code: u64,
    case: &'static str,
) {
    let mut stream = Stream::of_peer(3);
    let came = read(connection, &mut stream, bytes, size, false);
    let frames = if code == 0 { 1 } else { 0 };
    assert_same(
        rt,
        (came.code, came.ends_connection, came.frames),
        (code, code != 0, frames),
        case,
    );
}

#[test]
fn settings_keep_what_is_remembered(rt: HostRuntime) {
    for (case, old, new, code) in &ROWS {
        for size in 1..4usize {
            let remembered = settings_in(old);
            let client = Endpoint::new(Side::Client);
            let mut connection = Connection::resuming(client, &remembered);
            let before = values(connection.peer_settings());
            assert_same(&rt, before, values(remembered), *case);
            check_code(&rt, &mut connection, new, size, *code, *case);
        }
    }
}

#[test]
fn settings_without_early_data_need_keep_nothing(rt: HostRuntime) {
    let invalid = "settings that are invalid by themselves";
    for (case, old, new, _code) in &ROWS {
        let code = if *case == invalid { 0x109 } else { 0 };
        let remembered = settings_in(old);
        let client = Endpoint::new(Side::Client);
        let mut connection = Connection::resuming(client, &remembered);
        connection.early_data_refused();
        let before = values(connection.peer_settings());
        assert_same(&rt, before, values(PeerSettings::new()), *case);
        check_code(&rt, &mut connection, new, 64, code, *case);
        let after = values(connection.peer_settings());
        connection.early_data_refused();
        assert_same(&rt, values(connection.peer_settings()), after, *case);
        let server = Endpoint::new(Side::Server);
        let mut other = Connection::resuming(server, &remembered);
        check_code(&rt, &mut other, new, 64, code, *case);
    }
}
