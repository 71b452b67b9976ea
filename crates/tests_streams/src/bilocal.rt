//! Bidirectional streams that this end opened.
use crate::opened::{front, opened_here, session_of_stream};
use crate::same::assert_same;
use std::borrow::CowSlice;
use std::process::Abort;
use wtransport_proto::bytes::{BufferWriter, EndOfBuffer, PutError};
use wtransport_proto::frame::Frame;
use wtransport_proto::ids::SessionId;
use wtransport_proto::stream::bilocal::{StreamBiLocalH3, StreamBiLocalWT};

/// A DATA frame of one byte.
const DATA: &[u8] = b"\x00\x01a";

/// Asserts the result of writing a DATA frame of one byte with this much room, the bytes that are
/// written, and whether the stream can then be upgraded.
fn check_put<R: Abort>(
    rt: &R,
    stream: &mut StreamBiLocalH3,
    room: &mut [u8],
    wanted: (Result<(), PutError>, &'static [u8], bool),
    case: &str,
) {
    let mut writer = BufferWriter::new(room);
    let answer = stream.write_frame(Frame::new_data(CowSlice::Borrowed(b"a")), &mut writer);
    let came = (answer, writer.buffer_written(), stream.can_upgrade());
    assert_same(rt, came, wanted, case);
}

#[test]
fn a_frame_that_was_written_ends_upgrading(rt: HostRuntime) {
    let mut stream = opened_here();
    let wanted = (Err(PutError::EndOfBuffer), front(DATA, 2), true);
    check_put(&rt, &mut stream, &mut [0; 2], wanted, "too little room");
    let wanted = (Ok(()), DATA, false);
    check_put(&rt, &mut stream, &mut [0; 3], wanted, "room for all");
}

/// An empty HEADERS frame.
const HEADERS: &[u8] = &[0x01, 0x00];

#[test]
fn a_frame_that_was_written_whole_ends_upgrading(rt: HostRuntime) {
    let mut stream = opened_here();
    let mut buffer = [0; 2];
    let mut writer = BufferWriter::new(&mut buffer);
    let frame = Frame::new_data(CowSlice::Borrowed(b"a"));
    let answer = stream.write_frame_to_buffer(frame, &mut writer);
    assert_same(
        &rt,
        (answer, writer.offset(), stream.can_upgrade()),
        (Err(EndOfBuffer), 0, true),
        "too little room",
    );
    let frame = Frame::new_headers(CowSlice::Borrowed(b""));
    let answer = stream.write_frame_to_buffer(frame, &mut writer);
    assert_same(
        &rt,
        (answer, writer.buffer_written(), stream.can_upgrade()),
        (Ok(()), HEADERS, false),
        "room for all",
    );
}

/// The frame of session 0.
const FRAME_0: &[u8] = &[0x40, 0x41, 0x00];

/// The stream is returned if there is too little room for its session frame.
#[test]
fn it_is_upgraded_where_there_is_room(rt: HostRuntime) {
    let session = session_of_stream(&rt, 0);
    assert_same(&rt, opened_here().upgrade_size(session), 3, "size");
    let mut buffer = [0; 2];
    let mut writer = BufferWriter::new(&mut buffer);
    let upgraded = opened_here().upgrade(session, &mut writer);
    let (stream, error) = upgraded.expect_err(&rt, "too little room");
    assert_same(&rt, error, PutError::EndOfBuffer, "too little room");
    assert_same(&rt, writer.buffer_written(), front(FRAME_0, 2), "the parts");
    assert!(rt; stream.can_upgrade());
    let mut buffer = [0; 4];
    let mut writer = BufferWriter::new(&mut buffer);
    let upgraded = stream.upgrade(session, &mut writer);
    let stream = upgraded.expect(&rt, "there is room");
    assert_same(&rt, stream.session_id(), session, "its session");
    assert_same(&rt, writer.buffer_written(), FRAME_0, "the frame");
}

/// The frame of session 64.
const FRAME_64: &[u8] = &[0x40, 0x41, 0x40, 0x40];

/// Returns whether the bytes are complete parts of a session frame: nothing, or its type.
fn are_parts(written: &[u8]) -> bool {
    match written {
        [] | [0x40, 0x41] => true,
        _ => false,
    }
}

/// Upgrades the stream into the vector, again if allocation failed.
fn upgrade_again<R: Abort>(rt: &R, session: SessionId, vector: &mut Vec<u8>) -> StreamBiLocalWT {
    match opened_here().upgrade(session, vector) {
        Ok(stream) => stream,
        Err((stream, error)) => {
            assert_same(rt, error, PutError::Memory, "error");
            assert_same(rt, are_parts(vector.as_slice()), true, "whole parts");
            vector.clear();
            stream.upgrade(session, vector).expect(rt, "memory")
        }
    }
}

#[test]
fn refused_memory_hands_the_stream_back(rt: HostRuntime) {
    let session = session_of_stream(&rt, 64);
    let mut vector = Vec::new(rt.alloc());
    let stream = upgrade_again(&rt, session, &mut vector);
    assert_same(&rt, stream.session_id(), session, "its session");
    assert_same(&rt, vector.as_slice(), FRAME_64, "the frame");
}
