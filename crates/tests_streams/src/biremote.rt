//! Bidirectional streams that the peer opened.
use crate::opened::{opened_there, session_of_stream};
use crate::same::assert_same;
use std::borrow::CowSlice;
use wtransport_proto::bytes::{BufferReader, BufferWriter, EndOfBuffer};
use wtransport_proto::frame::{Frame, FrameKind};

/// A DATA frame with the payload `abc`.
const WIRE: &[u8] = b"\x00\x03abc";

#[test]
fn frames_are_written(rt: HostRuntime) {
    let mut vector = Vec::new(rt.alloc());
    let frame = Frame::new_data(CowSlice::Borrowed(b"abc"));
    let written = opened_there().write_frame(frame, &mut vector);
    written.expect(&rt, "memory");
    assert_same(&rt, vector.as_slice(), WIRE, "a vector");
}

#[test]
fn frames_are_written_to_a_buffer(rt: HostRuntime) {
    let mut buffer = [0; 6];
    let mut writer = BufferWriter::new(&mut buffer);
    let frame = Frame::new_data(CowSlice::Borrowed(b"abc"));
    let answer = opened_there().write_frame_to_buffer(frame, &mut writer);
    assert_same(&rt, answer, Ok(()), "a buffer");
    assert_same(&rt, writer.offset(), 5, "a buffer");
    let frame = Frame::new_data(CowSlice::Borrowed(b""));
    let answer = opened_there().write_frame_to_buffer(frame, &mut writer);
    assert_same(&rt, answer, Err(EndOfBuffer), "a full buffer");
    assert_same(&rt, writer.buffer_written(), WIRE, "what it has");
}

#[test]
fn a_session_frame_makes_it_a_stream_of_the_session(rt: HostRuntime) {
    let session = session_of_stream(&rt, 0);
    let mut stream = opened_there();
    let mut reader = BufferReader::new(&[0x40, 0x41, 0x00]);
    let read = stream.read_frame_from_buffer(&mut reader);
    let frame = read.expect(&rt, "no fault").expect(&rt, "a frame");
    assert_same(&rt, frame.kind(), FrameKind::WebTransport, "its kind");
    assert_same(&rt, frame.session_id(), Some(session), "its session");
    assert_same(&rt, stream.upgrade(session).session_id(), session, "made");
}

#[test]
fn the_protocol_is_named(rt: HostRuntime) {
    assert_same(
        &rt,
        wtransport_proto::WEBTRANSPORT_ALPN.as_slice(),
        b"h3".as_slice(),
        "ALPN",
    );
}
