//! Writing frames from each writing state into a vector whose allocation fails.
use crate::opened::{front, open_session, opened_here, opened_there, rest};
use crate::same::assert_same;
use std::alloc::Global;
use std::borrow::CowSlice;
use std::mem::drop;
use std::process::Abort;
use wtransport_proto::bytes::{BufferWriter, PutError};
use wtransport_proto::frame::Frame;
use wtransport_proto::session::UrlParseError;
use wtransport_proto::stream::bilocal::StreamBiLocalH3;
use wtransport_proto::stream::biremote::StreamBiRemoteH3;
use wtransport_proto::stream::session::StreamSession;
use wtransport_proto::stream::unilocal::{StreamUniLocalH3, StreamUniLocalQuic};
use wtransport_proto::stream_header::{StreamHeader, StreamKind};

/// The payload of the frame that is written.
static PAYLOAD: [u8; 100] = [9; 100];

/// A writing state that writes a DATA frame of these 100 bytes by its own call.
trait Writes {
    fn write(&mut self, out: &mut Vec<u8>) -> Result<(), PutError>;
}

impl Writes for StreamBiRemoteH3 {
    fn write(&mut self, out: &mut Vec<u8>) -> Result<(), PutError> {
        self.write_frame(Frame::new_data(CowSlice::Borrowed(&PAYLOAD)), out)
    }
}

impl Writes for StreamBiLocalH3 {
    fn write(&mut self, out: &mut Vec<u8>) -> Result<(), PutError> {
        self.write_frame(Frame::new_data(CowSlice::Borrowed(&PAYLOAD)), out)
    }
}

impl Writes for StreamSession {
    fn write(&mut self, out: &mut Vec<u8>) -> Result<(), PutError> {
        self.write_frame(Frame::new_data(CowSlice::Borrowed(&PAYLOAD)), out)
    }
}

impl Writes for StreamUniLocalH3 {
    fn write(&mut self, out: &mut Vec<u8>) -> Result<(), PutError> {
        match self.kind() {
            StreamKind::WebTransport => Err(PutError::EndOfBuffer),
            _ => self.write_frame(Frame::new_data(CowSlice::Borrowed(&PAYLOAD)), out),
        }
    }
}

/// Returns whether the bytes are the first parts of the frame: nothing, its type, or its type and
/// length.
fn are_parts(written: &[u8]) -> bool {
    match written {
        [] | [0x00] | [0x00, 0x40, 0x64] => true,
        _ => false,
    }
}

/// The type and length of the frame.
const HEAD: &[u8] = &[0x00, 0x40, 0x64];

/// Asserts that the state writes its frame into a vector. If allocation failed, asserts that
/// complete parts of the frame were written, and writes the frame again.
fn check_refused<R: Abort + AllocGlobal, K: Writes>(rt: &R, stream: &mut K) {
    let mut out = Vec::new(rt.alloc());
    if let Err(error) = stream.write(&mut out) {
        assert_same(rt, error, PutError::Memory, "fault");
        assert_same(rt, are_parts(out.as_slice()), true, "whole parts");
        out.clear();
        stream.write(&mut out).expect(rt, "memory");
    }
    assert_same(rt, front(out.as_slice(), 3), HEAD, "head");
    assert_same(rt, rest(out.as_slice(), 3), PAYLOAD.as_slice(), "payload");
}

#[test]
fn refused_memory_writes_whole_parts_to_a_stream_opened_there(rt: HostRuntime) {
    check_refused(&rt, &mut opened_there());
}

/// Asserts that the stream writes its frame. If allocation failed, asserts that the stream can
/// still be upgraded, and writes the frame again.
fn check_left<R: Abort + AllocGlobal>(rt: &R, stream: &mut StreamBiLocalH3) {
    let mut out = Vec::new(rt.alloc());
    match stream.write(&mut out) {
        Ok(()) => {}
        Err(_) => {
            assert_same(rt, are_parts(out.as_slice()), true, "whole parts");
            assert_same(rt, stream.can_upgrade(), true, "nothing is written");
            check_refused(rt, stream);
        }
    }
}

#[test]
fn refused_memory_leaves_a_stream_opened_here(rt: HostRuntime) {
    let mut stream = opened_here();
    check_left(&rt, &mut stream);
    assert_same(&rt, stream.can_upgrade(), false, "a frame is written");
    check_refused(&rt, &mut stream);
}

/// Returns the stream of a session, created again if allocation failed.
fn session_again(alloc: Global) -> Result<StreamSession, UrlParseError> {
    match open_session(alloc) {
        Ok(stream) => Ok(stream),
        Err(_) => open_session(alloc),
    }
}

#[test]
fn refused_memory_writes_whole_parts_to_the_stream_of_a_session(rt: HostRuntime) {
    let mut stream = session_again(rt.alloc()).expect(&rt, "memory");
    check_refused(&rt, &mut stream);
    drop(stream);
}

#[test]
fn refused_memory_writes_whole_parts_to_a_control_stream(rt: HostRuntime) {
    let mut head = [0; 1];
    let mut writer = BufferWriter::new(&mut head);
    let header = StreamHeader::new_control();
    let upgraded = StreamUniLocalQuic::open_uni().upgrade(header, &mut writer);
    let mut stream = upgraded.expect(&rt, "there is room");
    check_refused(&rt, &mut stream);
}
