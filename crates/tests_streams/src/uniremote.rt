//! Unidirectional streams that the peer opened.
use crate::opened::session_4;
use crate::same::assert_same;
use std::process::Abort;
use wtransport_proto::error::ErrorCode;
use wtransport_proto::ids::SessionId;
use wtransport_proto::stream::uniremote::{MaybeUpgradeH3, StreamUniRemoteH3, StreamUniRemoteQuic};
use wtransport_proto::stream_header::StreamKind;
use wtransport_proto::varint::VarInt;

/// Returns the stream whose header is at the start of the bytes.
fn read_header<R: Abort>(
    rt: &R,
    stream: StreamUniRemoteQuic,
    bytes: &mut &[u8],
) -> StreamUniRemoteH3 {
    match stream.upgrade(bytes).expect(rt, "a header") {
        MaybeUpgradeH3::H3(stream) => stream,
        MaybeUpgradeH3::Quic(_) => rt.panic("a whole header"),
    }
}

/// The kind of a stream, its session ID, and whether frames may be read from it.
type Summary = (StreamKind, Option<SessionId>, bool);

/// Asserts that the bytes start with the header of this stream, and which bytes are left.
fn check_header<R: Abort>(rt: &R, mut bytes: &[u8], wanted: Summary, left: &[u8], case: &str) {
    let stream = read_header(rt, StreamUniRemoteQuic::accept_uni(), &mut bytes);
    let came = (stream.kind(), stream.session_id(), stream.can_read());
    assert_same(rt, came, wanted, case);
    assert_same(rt, bytes, left, case);
}

#[test]
fn headers_are_read(rt: HostRuntime) {
    let control = (StreamKind::Control, None, true);
    check_header(&rt, b"\x00\x04", control, b"\x04", "control");
    let encoder = (StreamKind::QPackEncoder, None, true);
    check_header(&rt, b"\x02", encoder, b"", "encoder");
    let decoder = (StreamKind::QPackDecoder, None, true);
    check_header(&rt, b"\x03", decoder, b"", "decoder");
    let session = (StreamKind::WebTransport, Some(session_4(&rt)), false);
    check_header(&rt, b"\x40\x54\x04", session, b"", "a session");
    let exercise = (StreamKind::Exercise(VarInt::from_u32(33)), None, true);
    check_header(&rt, b"\x21", exercise, b"", "exercise");
}

/// Asserts that the stream is returned if there are too few bytes for a header, and the number of
/// bytes left. Then reads a complete header.
fn check_cut<R: Abort>(rt: &R, mut bytes: &[u8], left: usize) {
    let Ok(MaybeUpgradeH3::Quic(stream)) = StreamUniRemoteQuic::accept_uni().upgrade(&mut bytes)
    else {
        rt.panic("too few bytes")
    };
    let stream = read_header(rt, stream, &mut b"\x40\x54\x04".as_slice());
    assert_same(rt, bytes.len(), left, "bytes left");
    assert_same(rt, stream.kind(), StreamKind::WebTransport, "the kind");
}

#[test]
fn a_cut_header_is_read_on(rt: HostRuntime) {
    check_cut(&rt, b"", 0);
    check_cut(&rt, b"\x40", 1);
    check_cut(&rt, b"\x40\x54", 0);
}

/// The bytes of a header, the error code, and the case.
type FaultRow = (&'static [u8], ErrorCode, &'static str);

/// Headers that are rejected.
static FAULTS: [FaultRow; 3] = [
    (b"\x40\x54\x01", ErrorCode::Id, "no session"),
    (b"\x40\x42", ErrorCode::StreamCreation, "an unknown type"),
    (
        b"\x80\x42\x42\x42",
        ErrorCode::StreamCreation,
        "an unknown type of four bytes",
    ),
];

/// Asserts that the header of a row is rejected with its error code, and that no byte is left.
fn check_refusal<R: Abort>(rt: &R, row: &FaultRow) {
    let (mut bytes, code, case) = *row;
    let answer = StreamUniRemoteQuic::accept_uni().upgrade(&mut bytes);
    assert_same(rt, answer.err(), Some(code), case);
    assert_same(rt, bytes.len(), 0, case);
}

#[test]
fn faults_of_the_header_are_named(rt: HostRuntime) {
    for row in &FAULTS {
        check_refusal(&rt, row);
    }
}

#[test]
fn it_becomes_a_stream_of_its_session(rt: HostRuntime) {
    let quic = StreamUniRemoteQuic::accept_uni();
    let stream = read_header(&rt, quic, &mut b"\x40\x54\x04".as_slice());
    match stream.kind() {
        StreamKind::WebTransport => {
            let session = stream.upgrade().session_id();
            assert_same(&rt, session, session_4(&rt), "its session");
        }
        _ => rt.panic("a stream of a session"),
    }
}
