//! What the settings of both ends allow, and what becomes of streams of sessions
//! (draft-ietf-webtrans-http3-02, sections 3.1 and 4; draft-ietf-webtrans-http3-07, section 3.1).
use crate::playing::{REQUEST, configure, server};
use std::alloc::Global;
use std::process::Abort;
use wtp_connection::connection::Known;
use wtp_frames::endpoint::{Endpoint, Side};
use wtp_webtransport::connection::Connection;
use wtp_webtransport::event::{Event, HeadersKind};
use wtp_webtransport::fields::Fields;

/// A control stream with SETTINGS.
struct Peer {
    side: Side,
    control: &'static [u8],
    allows: bool,
}

/// The settings of a peer, at an end that enables all.
static PEERS: [Peer; 12] = [
    // 0x2b603742 and 0x33, of a client
    Peer {
        side: Side::Server,
        control: &[0x00, 0x04, 0x07, 0xab, 0x60, 0x37, 0x42, 0x01, 0x33, 0x01],
        allows: true,
    },
    // 0xc671706a and 0x33
    Peer {
        side: Side::Server,
        control: &[
            0x00, 0x04, 0x0b, 0xc0, 0x00, 0x00, 0x00, 0xc6, 0x71, 0x70, 0x6a, 0x10, 0x33, 0x01,
        ],
        allows: true,
    },
    // 0x14e9cd29 and 0x33
    Peer {
        side: Side::Server,
        control: &[0x00, 0x04, 0x07, 0x94, 0xe9, 0xcd, 0x29, 0x01, 0x33, 0x01],
        allows: true,
    },
    // 0x14e9cd29 = 0 and 0x33
    Peer {
        side: Side::Server,
        control: &[0x00, 0x04, 0x07, 0x94, 0xe9, 0xcd, 0x29, 0x00, 0x33, 0x01],
        allows: false,
    },
    // 0x2b603742 alone
    Peer {
        side: Side::Server,
        control: &[0x00, 0x04, 0x05, 0xab, 0x60, 0x37, 0x42, 0x01],
        allows: false,
    },
    // 0x33 alone
    Peer {
        side: Side::Server,
        control: &[0x00, 0x04, 0x02, 0x33, 0x01],
        allows: false,
    },
    // those of later drafts beside 0x2b603742 and 0x33: 0x2c7cf000 = 1, 0x2b61, 0x2b64 and 0x2b65 = 16,
    // and 0xffd277 = 1
    Peer {
        side: Side::Server,
        control: &[
            0x00, 0x04, 0x20, 0xac, 0x7c, 0xf0, 0x00, 0x01, 0x80, 0x00, 0x2b, 0x61, 0x10, 0x80,
            0x00, 0x2b, 0x64, 0x10, 0x80, 0x00, 0x2b, 0x65, 0x10, 0x80, 0xff, 0xd2, 0x77, 0x01,
            0xab, 0x60, 0x37, 0x42, 0x01, 0x33, 0x01,
        ],
        allows: true,
    },
    // 0x2c7cf000 = 2, which no draft permits, and 0x33
    Peer {
        side: Side::Server,
        control: &[0x00, 0x04, 0x07, 0xac, 0x7c, 0xf0, 0x00, 0x02, 0x33, 0x01],
        allows: false,
    },
    // no settings
    Peer {
        side: Side::Server,
        control: &[0x00, 0x04, 0x00],
        allows: false,
    },
    // no SETTINGS
    Peer {
        side: Side::Server,
        control: &[0x00],
        allows: false,
    },
    // 0x2b603742, 0x33 and 0x08, of a server
    Peer {
        side: Side::Client,
        control: &[
            0x00, 0x04, 0x09, 0xab, 0x60, 0x37, 0x42, 0x01, 0x33, 0x01, 0x08, 0x01,
        ],
        allows: true,
    },
    // 0x2b603742 and 0x33
    Peer {
        side: Side::Client,
        control: &[0x00, 0x04, 0x07, 0xab, 0x60, 0x37, 0x42, 0x01, 0x33, 0x01],
        allows: false,
    },
];

/// Returns a connection of an end that enables WebTransport and datagrams.
fn enabling(side: Side) -> Connection {
    let mut endpoint = Endpoint::new(side);
    endpoint.webtransport = true;
    endpoint.datagrams = true;
    Connection::new(endpoint, true)
}

#[test]
fn settings_of_both_ends_allow_sessions(rt: HostRuntime) {
    let mut fields = Fields::new(rt.alloc(), 1000);
    for peer in &PEERS {
        let mut connection = enabling(peer.side);
        let mut control = connection.accept(match peer.side {
            Side::Server => 2,
            Side::Client => 3,
        });
        let mut start: usize = 0;
        for _turn in 0..3u32 {
            let rest = peer.control.get(start..).unwrap_or(&[]);
            let received = connection.receive(&mut control, rest, false, &mut fields);
            start = start.saturating_add(received.consumed);
            let is_fault = matches!(
                &received.event,
                Event::ConnectionError(_) | Event::StreamError(_)
            );
            assert!(rt; !is_fault, "a fault after {start} bytes of SETTINGS");
        }
        let came = connection.allows_sessions();
        let size = peer.control.len();
        assert!(rt; came == peer.allows, "SETTINGS of {size} bytes: {came}");
    }
}

#[test]
fn sessions_need_datagrams_of_both_ends(rt: HostRuntime) {
    let mut endpoint = Endpoint::new(Side::Server);
    endpoint.webtransport = true;
    let mut connection = Connection::new(endpoint, true);
    let mut fields = Fields::new(rt.alloc(), 1000);
    configure(&mut connection, &mut fields);
    assert!(rt;
        !connection.allows_sessions(),
        "the own SETTINGS do not enable datagrams"
    );
    let mut stream = connection.accept(0);
    connection.receive(&mut stream, REQUEST.as_slice(), false, &mut fields);
    let received = connection.receive(&mut stream, REQUEST.as_slice(), false, &mut fields);
    let is_request = matches!(received.event, Event::Headers(HeadersKind::Request, _));
    assert!(rt; is_request, "it is a request as any other");
    let mut connection = server(true);
    configure(&mut connection, &mut fields);
    assert!(rt; connection.allows_sessions(), "both ends enable sessions");
}

/// Returns the code of an error and whether it ends the connection, or 0 of another event.
fn error_of(event: Event<'_>) -> (u64, bool) {
    match event {
        Event::StreamError(fault) => (fault.code().number().into_inner(), false),
        Event::ConnectionError(fault) => (fault.code().number().into_inner(), true),
        _ => (0, false),
    }
}

/// What is known of the session of a stream, and the error: its code, and whether it ends the
/// connection.
struct Joining {
    side: Side,
    known: Known,
    code: u64,
    ends: bool,
    name: &'static str,
}

/// Streams whose session cannot come.
static JOININGS: [Joining; 8] = [
    Joining {
        side: Side::Server,
        known: Known::Over,
        code: 0x170d_7b68,
        ends: false,
        name: "a session that is over",
    },
    Joining {
        side: Side::Server,
        known: Known::Refused,
        code: 0x3994_bd84,
        ends: false,
        name: "a request that was refused",
    },
    Joining {
        side: Side::Server,
        known: Known::Other,
        code: 0x3994_bd84,
        ends: false,
        name: "a request for no session",
    },
    Joining {
        side: Side::Server,
        known: Known::Impossible,
        code: 0x0108,
        ends: true,
        name: "a stream of a session",
    },
    Joining {
        side: Side::Client,
        known: Known::Over,
        code: 0x170d_7b68,
        ends: false,
        name: "an own session that is over",
    },
    Joining {
        side: Side::Client,
        known: Known::Refused,
        code: 0x3994_bd84,
        ends: false,
        name: "an own session that was refused",
    },
    Joining {
        side: Side::Client,
        known: Known::Other,
        code: 0x0108,
        ends: true,
        name: "an own request for no session",
    },
    Joining {
        side: Side::Client,
        known: Known::Impossible,
        code: 0x0108,
        ends: true,
        name: "a request that was not made",
    },
];

/// Asserts what becomes of a stream of session 4.
fn assert_joined<R: Abort>(rt: &R, alloc: Global, row: &Joining) {
    let mut connection = enabling(row.side);
    let mut fields = Fields::new(alloc, 1000);
    let mut stream = connection.accept(match row.side {
        Side::Server => 8,
        Side::Client => 9,
    });
    let joins = connection.receive(&mut stream, b"\x40\x41\x04".as_slice(), false, &mut fields);
    let name = row.name;
    assert!(rt;
        matches!(joins.event, Event::Joins(4)),
        "{name}: it names session 4"
    );
    let (code, ends) = error_of(connection.join(&mut stream, row.known));
    assert!(rt;
        code == row.code && ends == row.ends,
        "{name}: {code} and {ends}"
    );
    let later = connection.receive(&mut stream, b"a".as_slice(), false, &mut fields);
    let is_over = matches!(later.event, Event::More) && later.consumed == 1;
    assert!(rt; is_over, "{name}: nothing comes after it");
}

#[test]
fn streams_whose_session_cannot_come_have_codes(rt: HostRuntime) {
    for row in &JOININGS {
        assert_joined(&rt, rt.alloc(), row);
    }
    let mut connection = enabling(Side::Server);
    let mut fields = Fields::new(rt.alloc(), 1000);
    let mut own = connection.accept(4);
    connection.receive(&mut own, b"\x40\x41\x04".as_slice(), false, &mut fields);
    let known = connection.known(&own);
    let (code, ends) = error_of(connection.join(&mut own, known));
    assert!(rt;
        code == 0x0108 && ends,
        "a stream that names itself: {code}"
    );
    let mut connection = enabling(Side::Server);
    let mut gone = connection.accept(0);
    connection.receive(&mut gone, b"\x40\x41\x08".as_slice(), true, &mut fields);
    connection.join(&mut gone, Known::Refused);
    let mut late = connection.accept(4);
    connection.receive(&mut late, b"\x40\x41\x00".as_slice(), false, &mut fields);
    let known = connection.known(&gone);
    let (code, ends) = error_of(connection.join(&mut late, known));
    assert!(rt;
        code == 0x0108 && ends,
        "a stream of a session that is over: {code}"
    );
    let mut connection = enabling(Side::Server);
    let mut foreign = connection.accept(4);
    let bytes = b"\x40\x41\x02".as_slice();
    let (code, ends) = error_of(
        connection
            .receive(&mut foreign, bytes, false, &mut fields)
            .event,
    );
    assert!(rt;
        code == 0x0108 && ends,
        "no client's bidirectional stream: {code}"
    );
    let client = enabling(Side::Client);
    let unknown = matches!(client.known_without_stream(4), Known::Impossible);
    assert!(rt; unknown, "a client knows which sessions it asked for");
}
