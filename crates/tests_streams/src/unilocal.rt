//! Unidirectional streams that this end opened.
use crate::opened::{front, session_4, session_of_stream};
use crate::same::assert_same;
use std::borrow::CowSlice;
use std::process::Abort;
use wtransport_proto::bytes::{BufferWriter, EndOfBuffer, PutError};
use wtransport_proto::frame::Frame;
use wtransport_proto::stream::unilocal::{StreamUniLocalH3, StreamUniLocalQuic};
use wtransport_proto::stream_header::{StreamHeader, StreamKind};

/// A control stream: its type, and two empty SETTINGS frames.
const CONTROL: &[u8] = &[0x00, 0x04, 0x00, 0x04, 0x00];

/// Settings are written in parts and completely, if there is room for two empty SETTINGS frames.
#[test]
fn a_control_stream_writes_settings(rt: HostRuntime) {
    let header = StreamHeader::new_control();
    assert_same(&rt, StreamUniLocalQuic::upgrade_size(header), 1, "size");
    let mut buffer = [0; 5];
    let mut writer = BufferWriter::new(&mut buffer);
    let upgraded = StreamUniLocalQuic::open_uni().upgrade(header, &mut writer);
    let mut stream = upgraded.expect(&rt, "there is room");
    assert_same(
        &rt,
        (writer.buffer_written(), stream.kind(), stream.session_id()),
        (front(CONTROL, 1), StreamKind::Control, None),
        "the stream",
    );
    if let StreamKind::WebTransport = stream.kind() {
        rt.panic("a control stream");
    }
    let frame = Frame::new_settings(CowSlice::Borrowed(&[]));
    let answer = stream.write_frame(frame, &mut writer);
    assert_same(&rt, answer, Ok(()), "in parts");
    assert_same(&rt, writer.buffer_written(), front(CONTROL, 3), "in parts");
    let frame = Frame::new_settings(CowSlice::Borrowed(&[0x33, 0x01]));
    let answer = stream.write_frame_to_buffer(frame, &mut writer);
    assert_same(&rt, answer, Err(EndOfBuffer), "too little room");
    assert_same(&rt, writer.offset(), 3, "too little room");
    let frame = Frame::new_settings(CowSlice::Borrowed(&[]));
    let answer = stream.write_frame_to_buffer(frame, &mut writer);
    assert_same(&rt, answer, Ok(()), "whole");
    assert_same(&rt, writer.buffer_written(), CONTROL, "whole");
}

/// The header of session 4.
const HEADER: &[u8] = &[0x40, 0x54, 0x04];

/// The stream is returned if there is too little room for its header.
#[test]
fn it_is_upgraded_where_there_is_room(rt: HostRuntime) {
    let session = session_4(&rt);
    let header = StreamHeader::new_webtransport(session);
    assert_same(&rt, StreamUniLocalQuic::upgrade_size(header), 3, "size");
    let mut buffer = [0; 2];
    let mut writer = BufferWriter::new(&mut buffer);
    let upgraded = StreamUniLocalQuic::open_uni().upgrade(header, &mut writer);
    let (stream, error) = upgraded.expect_err(&rt, "too little room");
    assert_same(&rt, error, PutError::EndOfBuffer, "too little room");
    assert_same(&rt, writer.buffer_written(), front(HEADER, 2), "the parts");
    let mut buffer = [0; 3];
    let mut writer = BufferWriter::new(&mut buffer);
    let upgraded = stream.upgrade(header, &mut writer);
    let stream = upgraded.expect(&rt, "there is room");
    assert_same(&rt, stream.session_id(), Some(session), "the session named");
    assert_same(&rt, writer.buffer_written(), HEADER, "the header");
    match stream.kind() {
        StreamKind::WebTransport => {
            assert_same(&rt, stream.upgrade().session_id(), session, "its session");
        }
        _ => rt.panic("a stream of a session"),
    }
}

/// The header of session 64.
const HEADER_64: &[u8] = &[0x40, 0x54, 0x40, 0x40];

/// Returns whether the bytes are complete parts of the header of a session: nothing, or its type.
fn are_parts(written: &[u8]) -> bool {
    match written {
        [] | [0x40, 0x54] => true,
        _ => false,
    }
}

/// Upgrades a stream into the vector, again if allocation failed.
fn upgrade_again<R: Abort>(rt: &R, header: StreamHeader, vector: &mut Vec<u8>) -> StreamUniLocalH3 {
    match StreamUniLocalQuic::open_uni().upgrade(header, vector) {
        Ok(stream) => stream,
        Err((stream, error)) => {
            assert_same(rt, error, PutError::Memory, "error");
            assert_same(rt, are_parts(vector.as_slice()), true, "whole parts");
            vector.clear();
            stream.upgrade(header, vector).expect(rt, "memory")
        }
    }
}

#[test]
fn refused_memory_hands_the_stream_back(rt: HostRuntime) {
    let session = session_of_stream(&rt, 64);
    let mut vector = Vec::new(rt.alloc());
    let header = StreamHeader::new_webtransport(session);
    let stream = upgrade_again(&rt, header, &mut vector);
    assert_same(&rt, stream.session_id(), Some(session), "its session");
    assert_same(&rt, vector.as_slice(), HEADER_64, "the header");
}
