//! Frames written poll by poll.
use crate::polled::frames::{ABC, FIELDS, HEADERS, SESSION, SETTINGS, TABLE};
use crate::polled::readings::assert_same_of;
use crate::polled::writings::{STOPPED, check_refused, check_stopped, check_taken, check_written};
use std::borrow::CowSlice;
use std::process::Abort;
use test_io::ScriptedSink;
use wtp_core::bytes::{Polled, WriteStep};
use wtp_core::ids::{SessionId, StreamId};
use wtp_core::varint::VarInt;
use wtp_wire::frame::Frame;

/// Asserts that the frame is written into a vector and into a slow sink.
fn check_frame_written<R: Abort + AllocGlobal>(rt: &R, frame: Frame<'_>, bytes: &[u8]) {
    assert_same_of(rt, bytes, &frame.write_size(), &bytes.len(), "size");
    check_written(
        rt,
        &mut frame.write_async(),
        &mut frame.write_async(),
        bytes,
    );
}

#[test]
fn settings_and_headers_are_written(rt: HostRuntime) {
    let settings = Frame::new_settings(CowSlice::Borrowed(TABLE));
    check_frame_written(&rt, settings, SETTINGS);
    let headers = Frame::new_headers(CowSlice::Borrowed(FIELDS));
    check_frame_written(&rt, headers, HEADERS);
}

#[test]
fn frames_with_no_payload_are_written(rt: HostRuntime) {
    let empty = Frame::new_data(CowSlice::Borrowed(&[]));
    check_frame_written(&rt, empty, &[0x00, 0x00]);
    let stream = StreamId::new(VarInt::MIN);
    let session = SessionId::try_from_session_stream(stream).expect(&rt, "a session");
    check_frame_written(&rt, Frame::new_webtransport(session), SESSION);
}

/// The results of a sink that is not ready and then stops.
const STEPS: [WriteStep; 4] = [
    WriteStep::Bytes(2),
    WriteStep::NotReady,
    WriteStep::Bytes(2),
    WriteStep::Stopped,
];

#[test]
fn a_waiting_and_stopped_frame_is_written(rt: HostRuntime) {
    let frame = Frame::new_data(CowSlice::Borrowed(b"abc"));
    let mut sink = ScriptedSink::new(rt.alloc(), &STEPS);
    let mut writing = frame.write_async();
    check_taken(&rt, &mut writing, &mut sink, (ABC, 2), &Polled::Pending);
    check_taken(&rt, &mut writing, &mut sink, (ABC, 4), &STOPPED);
}

#[test]
fn a_stopped_frame_is_written_on(rt: HostRuntime) {
    let frame = Frame::new_data(CowSlice::Borrowed(b"abc"));
    for sent in 0..=4usize {
        check_stopped(&rt, &mut frame.write_async(), ABC, sent);
    }
}

#[test]
fn refused_memory_sends_each_byte_once(rt: HostRuntime) {
    let short = Frame::new_data(CowSlice::Borrowed(b"abc"));
    check_refused(&rt, &mut short.write_async(), &[0x00, 0x03], b"abc");
    let payload = [9; 100];
    let long = Frame::new_data(CowSlice::Borrowed(&payload));
    check_refused(&rt, &mut long.write_async(), &[0x00, 0x40, 0x64], &payload);
}
