//! Streams that the peer asks to stop (RFC 9114, section 6.2.1; RFC 9204, section 4.2).
use crate::reading::{connection_of, read};
use crate::same::assert_same;
use wtp_connection::stream::{Purpose, Stream};
use wtp_core::error::ErrorScope;

/// What an own stream is for, and the code of the error; 0 if there is none.
static ROWS: [(&str, Purpose, u64); 6] = [
    ("the control stream (6.2.1)", Purpose::Control, 0x104),
    (
        "the encoder stream (RFC 9204, 4.2)",
        Purpose::Encoder,
        0x104,
    ),
    (
        "the decoder stream (RFC 9204, 4.2)",
        Purpose::Decoder,
        0x104,
    ),
    ("a message", Purpose::Message, 0),
    ("a stream of a session", Purpose::Session(0), 0),
    ("a stream of a reserved type", Purpose::Ignored, 0),
];

#[test]
fn own_critical_streams_may_not_be_stopped(rt: HostRuntime) {
    for (case, own, code) in &ROWS {
        let mut connection = connection_of(true, true);
        let came = connection.stopped(*own);
        let found = match came {
            None => (0, false),
            Some(fault) => (
                fault.code().number().into_inner(),
                matches!(fault.scope(), ErrorScope::Connection),
            ),
        };
        assert_same(&rt, found, (*code, *code == 0x104), *case);
        let again = connection.stopped(Purpose::Control).is_none();
        assert_same(&rt, again, *code == 0x104, *case);
        let mut request = Stream::of_peer(4);
        let bytes = [0x01, 0x01, 0xd1, 0x00, 0x01, 0x61];
        let data = read(&mut connection, &mut request, &bytes, 64, true).data;
        assert_same(&rt, data, 0, *case);
    }
}
