//! Streams of sessions, which may come before their session (WebTransport over HTTP/3, "Buffering
//! Incoming Streams and Datagrams").
use crate::reading::{connection_of, read};
use crate::same::assert_same;
use std::process::Abort;
use wtp_connection::connection::{Connection, Known};
use wtp_connection::fault::Fault;
use wtp_connection::stream::Stream;

/// Returns a stream of session 0 with three bytes, which are left over.
fn early(connection: &mut Connection, id: u64) -> (Stream, usize) {
    let mut stream = Stream::of_peer(id);
    let found = read(
        connection,
        &mut stream,
        &[0x40, 0x54, 0x00, 1, 2, 3],
        64,
        true,
    );
    (stream, found.left)
}

fn code_of(fault: Option<Fault>) -> u64 {
    match fault {
        None => 0,
        Some(fault) => fault.code().number().into_inner(),
    }
}

#[test]
fn a_stream_waits_for_its_session(rt: HostRuntime) {
    let mut connection = connection_of(true, true);
    let (mut stream, left) = early(&mut connection, 6);
    let waits = code_of(connection.join(&mut stream, Known::Coming));
    let again = read(&mut connection, &mut stream, &[1, 2, 3], 64, true);
    assert_same(
        &rt,
        (left, waits, again.left, again.ends),
        (3, 0, 3, 0),
        "its bytes and its end wait",
    );
    let open = code_of(connection.join(&mut stream, Known::Open));
    let given = read(&mut connection, &mut stream, &[1, 2, 3], 64, true);
    assert_same(
        &rt,
        (open, given.data, given.ends),
        (0, 3, 1),
        "they come once it is open",
    );
    assert_same(&rt, connection.waiting(), 0, "it waits no longer");
}

/// Asserts the error of a stream whose session is known in this way, before or after it waited.
fn check_known<R: Abort>(rt: &R, known: Known, code: u64, waits: bool) {
    let mut connection = connection_of(true, true);
    let (mut stream, _left) = early(&mut connection, 6);
    if waits {
        connection.join(&mut stream, Known::Coming);
    }
    let came = code_of(connection.join(&mut stream, known));
    assert_same(rt, (came, connection.waiting()), (code, 0), code);
    let later = read(&mut connection, &mut stream, &[1, 2, 3], 64, true);
    assert_same(rt, (later.data, later.ends, later.left), (0, 0, 0), code);
}

#[test]
fn streams_without_a_session_are_refused(rt: HostRuntime) {
    check_known(&rt, Known::Over, 0x170d7b68, false);
    check_known(&rt, Known::Over, 0x170d7b68, true);
    check_known(&rt, Known::Refused, 0x3994bd84, false);
    check_known(&rt, Known::Refused, 0x3994bd84, true);
    check_known(&rt, Known::Other, 0x3994bd84, false);
    check_known(&rt, Known::Other, 0x3994bd84, true);
    check_known(&rt, Known::Impossible, 0x108, false);
    check_known(&rt, Known::Impossible, 0x108, true);
}

/// What is known of a session that is open: the code of the error of its stream; 0 if there is none.
static OPEN: [(Known, u64); 4] = [
    (Known::Open, 0),
    (Known::Coming, 0),
    (Known::Refused, 0),
    (Known::Over, 0x170d7b68),
];

#[test]
fn streams_end_with_their_session(rt: HostRuntime) {
    for (known, code) in &OPEN {
        let mut connection = connection_of(true, true);
        let (mut theirs, _left) = early(&mut connection, 6);
        connection.join(&mut theirs, Known::Open);
        let mut own = Stream::of_session(0);
        let came = code_of(connection.join(&mut theirs, *known));
        let answer = code_of(connection.join(&mut own, *known));
        assert_same(&rt, (came, answer), (*code, *code), *code);
        let first = read(&mut connection, &mut theirs, &[1, 2, 3], 64, true);
        let second = read(&mut connection, &mut own, &[1, 2, 3], 64, true);
        let wanted = if *code == 0 { (3, 1) } else { (0, 0) };
        assert_same(&rt, (first.data, first.ends), wanted, *code);
        assert_same(&rt, (second.data, second.ends), wanted, *code);
    }
}

#[test]
fn a_client_knows_that_its_request_asked_for_no_session(rt: HostRuntime) {
    let mut connection = connection_of(false, true);
    let mut stream = Stream::of_peer(3);
    read(&mut connection, &mut stream, &[0x40, 0x54, 0x00], 64, false);
    let came = code_of(connection.join(&mut stream, Known::Other));
    assert_same(&rt, came, 0x108, "the ID is no session's");
}

/// A stream of which more bytes are left over than the caller holds: what of it came, and the code of
/// the error.
static OVERFLOWS: [(&str, u64, &[u8], u64, u64); 5] = [
    ("before join", 6, &[0x40, 0x54, 0x00, 1], 0x3994bd84, 0),
    ("while it waits", 6, &[0x40, 0x54, 0x00, 1], 0x3994bd84, 1),
    ("within HEADERS (10.5)", 4, &[0x01, 0x05, 0x00], 0x107, 0),
    (
        "within SETTINGS (10.5)",
        2,
        &[0x00, 0x04, 0x05, 0x00],
        0x107,
        0,
    ),
    ("within its type (10.5)", 2, &[0x40], 0x107, 0),
];

#[test]
fn streams_that_overflow_are_ended(rt: HostRuntime) {
    for (case, id, bytes, code, waits) in &OVERFLOWS {
        let mut connection = connection_of(true, true);
        let mut stream = Stream::of_peer(*id);
        read(&mut connection, &mut stream, bytes, 64, false);
        if *waits == 1 {
            connection.join(&mut stream, Known::Coming);
        }
        let came = code_of(connection.overflow(&mut stream));
        assert_same(&rt, (came, connection.waiting()), (*code, 0), *case);
        let again = code_of(connection.overflow(&mut stream));
        let later = read(&mut connection, &mut stream, bytes, 64, true);
        assert_same(&rt, (again, later.data, later.left), (0, 0, 0), *case);
        let mut request = Stream::of_peer(8);
        let bytes = [0x01, 0x01, 0xd1, 0x00, 0x01, 0x61];
        let data = read(&mut connection, &mut request, &bytes, 64, true).data;
        assert_same(&rt, data, if *code == 0x107 { 0 } else { 1 }, *case);
    }
}

#[test]
fn sixteen_streams_wait(rt: HostRuntime) {
    let mut connection = connection_of(true, true);
    for _turn in 0..16u32 {
        let (mut stream, _left) = early(&mut connection, 6);
        connection.join(&mut stream, Known::Coming);
    }
    let (mut stream, _left) = early(&mut connection, 6);
    let came = code_of(connection.join(&mut stream, Known::Coming));
    assert_same(
        &rt,
        (came, connection.waiting()),
        (0x3994bd84, 16),
        "the seventeenth is rejected",
    );
}

#[test]
fn nothing_is_joined_after_an_error_of_the_connection(rt: HostRuntime) {
    let mut connection = connection_of(true, true);
    let (mut stream, _left) = early(&mut connection, 6);
    let mut control = Stream::of_peer(2);
    let error = read(
        &mut connection,
        &mut control,
        &[0x00, 0x21, 0x00],
        64,
        false,
    );
    let waits = code_of(connection.join(&mut stream, Known::Coming));
    let refused = code_of(connection.join(&mut stream, Known::Impossible));
    assert_same(
        &rt,
        (error.code, waits, refused),
        (0x10a, 0, 0),
        "the error, and no other",
    );
    assert_same(&rt, connection.waiting(), 0, "none waits");
    assert_same(
        &rt,
        stream.waits().is_none(),
        true,
        "the stream is unchanged",
    );
}
