//! Streams that carry a session request.
use crate::opened::{front, open_session, opened_there};
use crate::same::assert_same;
use std::borrow::CowSlice;
use std::mem::drop;
use wtransport_proto::bytes::{BufferWriter, EndOfBuffer, PutError};
use wtransport_proto::frame::Frame;
use wtransport_proto::session::SessionRequest;

#[test]
fn it_keeps_its_request(rt: HostRuntime) {
    let stream = open_session(rt.alloc()).expect(&rt, "memory");
    let request = stream.request();
    assert_same(&rt, request.authority(), "example.com", "opened here");
    assert_same(&rt, request.path(), "/a?b", "opened here");
    drop(stream);
    let request = SessionRequest::new(rt.alloc(), "https://localhost:4433");
    let request = request.expect(&rt, "memory");
    let stream = opened_there().into_session(request);
    let authority = stream.request().authority();
    assert_same(&rt, authority, "localhost:4433", "opened there");
    drop(stream);
}

/// The output if there is no room for the third frame: the first frame, and the type of the
/// third.
const WRITTEN: &[u8] = b"\x00\x01a\x01";

/// Two DATA frames are written completely or not at all, and the second does not fit. A HEADERS
/// frame is written in parts, one of which fits.
#[test]
fn frames_are_written(rt: HostRuntime) {
    let stream = open_session(rt.alloc()).expect(&rt, "memory");
    let mut buffer = [0; 4];
    let mut writer = BufferWriter::new(&mut buffer);
    let frame = Frame::new_data(CowSlice::Borrowed(b"a"));
    let answer = stream.write_frame_to_buffer(frame, &mut writer);
    assert_same(&rt, answer, Ok(()), "the first");
    let frame = Frame::new_data(CowSlice::Borrowed(b""));
    let answer = stream.write_frame_to_buffer(frame, &mut writer);
    assert_same(&rt, answer, Err(EndOfBuffer), "whole");
    assert_same(&rt, writer.buffer_written(), front(WRITTEN, 3), "whole");
    let frame = Frame::new_headers(CowSlice::Borrowed(b""));
    let answer = stream.write_frame(frame, &mut writer);
    assert_same(&rt, answer, Err(PutError::EndOfBuffer), "in parts");
    assert_same(&rt, writer.buffer_written(), WRITTEN, "in parts");
    drop(stream);
}
