//! Stream IDs, session IDs and status codes.
use crate::same::assert_same;
use crate::texts::{debugs, displays};
use std::process::Abort;
use std::str::FromStr;
use wtp_core::ids::{
    InvalidQStreamId, InvalidSessionId, InvalidStatusCode, QStreamId, SessionId, StatusCode,
    StreamId,
};
use wtp_core::varint::VarInt;

/// The initiator and direction of a stream, by its two lowest bits.
static KINDS: [(u32, bool, bool); 4] = [
    (0, true, true),
    (1, false, true),
    (2, true, false),
    (3, false, false),
];

/// Asserts the properties of a stream ID.
fn check_stream<A: Abort>(rt: &A, number: u32, by_client: bool, both_ways: bool) {
    let stream = StreamId::new(VarInt::from_u32(number));
    let kind = (stream.is_client_initiated(), stream.is_bidirectional());
    let local = (stream.is_local(false), stream.is_local(true));
    let wanted = (
        (by_client, both_ways),
        (by_client, !by_client),
        u64::from(number),
    );
    assert_same(rt, (kind, local, stream.into_u64()), wanted, number);
}

#[test]
fn the_two_lowest_bits_say_who_and_how(rt: HostRuntime) {
    for four in 0..256u32 {
        for (bits, by_client, both_ways) in &KINDS {
            check_stream(&rt, four.wrapping_mul(4) | *bits, *by_client, *both_ways);
        }
    }
}

/// Returns whether a stream ID is a session ID, and asserts the numbers of its session.
fn is_session<A: Abort>(rt: &A, number: u32, quarter: u64) -> bool {
    let varint = VarInt::from_u32(number);
    let stream = StreamId::new(varint);
    match SessionId::try_from_session_stream(stream) {
        Ok(session) => {
            let varints = (SessionId::try_from_varint(varint), session.into_varint());
            let streams = (session.session_stream(), number % 4);
            let wanted = ((Ok(session), varint), (stream, 0));
            assert_same(rt, (varints, streams), wanted, number);
            let id = QStreamId::from_session_id(session);
            let came = (id.into_u64(), id.into_session_id(), id.into_stream_id());
            assert_same(rt, came, (quarter, session, stream), number);
            true
        }
        Err(InvalidSessionId) => {
            assert_same(rt, number % 4 == 0, false, number);
            false
        }
    }
}

#[test]
fn only_client_streams_both_ways_are_sessions(rt: HostRuntime) {
    let mut quarter = 0u64;
    for number in 0..1024u32 {
        if is_session(&rt, number, quarter) {
            quarter = quarter.wrapping_add(1);
        }
    }
    assert_same(&rt, quarter, 256, "sessions of 1024 streams");
}

#[test]
fn bounds_are_kept(rt: HostRuntime) {
    let came = (StreamId::MAX.into_varint(), QStreamId::MAX.into_u64());
    let wanted = (VarInt::MAX, 1152921504606846975);
    assert_same(&rt, came, wanted, "the largest stream and quarter");
    let largest = QStreamId::try_from_varint(QStreamId::MAX.into_varint());
    let above = VarInt::from_u64_unchecked(1152921504606846976);
    let came = (largest, QStreamId::try_from_varint(above));
    let wanted = (Ok(QStreamId::MAX), Err(InvalidQStreamId));
    assert_same(&rt, came, wanted, "the largest quarter and one more");
    let session = SessionId::from_session_stream_unchecked(StreamId::new(VarInt::from_u32(8)));
    assert_same(&rt, session.into_u64(), 8, "a session that is not checked");
}

/// Asserts whether a number is a valid status code, for each type of number.
fn check_status<A: Abort>(rt: &A, number: u32, is_good: bool) {
    let code = StatusCode::try_from_u32(number);
    let same_width = StatusCode::try_from(number);
    let wide = StatusCode::try_from(u64::from(number));
    let came = (code.is_ok(), &same_width, &wide);
    assert_same(rt, came, (is_good, &code, &code), number);
}

/// A number, and whether it is a valid status code.
static BOUNDS: [(u32, bool); 5] = [
    (0, false),
    (99, false),
    (100, true),
    (599, true),
    (600, false),
];

#[test]
fn status_codes_are_100_to_599(rt: HostRuntime) {
    for (number, is_good) in &BOUNDS {
        check_status(&rt, *number, *is_good);
    }
    let came = (StatusCode::try_from(65736u64), StatusCode::try_from(200u8));
    let wanted = (Err(InvalidStatusCode), Ok(StatusCode::OK));
    assert_same(&rt, came, wanted, "65736 of 64 bits, 200 of 8");
    let came = (StatusCode::try_from(99u8), StatusCode::try_from(429u16));
    let wanted = (Err(InvalidStatusCode), Ok(StatusCode::TOO_MANY_REQUESTS));
    assert_same(&rt, came, wanted, "99 of 8 bits, 429 of 16");
    let named = (
        StatusCode::FORBIDDEN.into_inner(),
        StatusCode::NOT_FOUND.into_inner(),
    );
    let bounds = (StatusCode::MIN.into_inner(), StatusCode::MAX.into_inner());
    assert_same(&rt, (named, bounds), ((403, 404), (100, 599)), "constants");
    let came = (
        StatusCode::OK.is_successful(),
        StatusCode::NOT_FOUND.is_successful(),
    );
    assert_same(&rt, came, (true, false), "success");
}

/// Returns the status code in a text.
fn status(text: &str) -> Option<u16> {
    match StatusCode::from_str(text) {
        Ok(code) => Some(code.into_inner()),
        Err(InvalidStatusCode) => None,
    }
}

/// A text and its status code.
static TEXTS: [(&str, Option<u16>); 10] = [
    ("200", Some(200)),
    ("0200", Some(200)),
    ("+200", Some(200)),
    ("", None),
    ("+", None),
    ("99", None),
    ("600", None),
    ("65736", None),
    ("-200", None),
    ("20x", None),
];

#[test]
fn status_texts_are_read(rt: HostRuntime) {
    for (text, number) in &TEXTS {
        assert_same(&rt, status(text), *number, text);
    }
}

#[test]
fn ids_are_printed(rt: HostRuntime) {
    let stream = StreamId::new(VarInt::from_u32(8));
    let session = SessionId::try_from_session_stream(stream).expect(&rt, "a session");
    let quarter = QStreamId::from_session_id(session);
    displays(&rt, &stream, "8");
    debugs(&rt, &stream, "8");
    displays(&rt, &session, "8");
    debugs(&rt, &session, "8");
    displays(&rt, &quarter, "2");
    debugs(&rt, &quarter, "2");
    displays(&rt, &StatusCode::OK, "200");
    debugs(&rt, &StatusCode::OK, "200");
    displays(&rt, &InvalidSessionId, "invalid session ID");
    displays(&rt, &InvalidQStreamId, "invalid QStream ID");
    displays(&rt, &InvalidStatusCode, "invalid HTTP status code");
}
