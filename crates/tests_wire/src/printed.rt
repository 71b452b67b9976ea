//! Debug output of frames, datagrams, and polled readers and writers.

use crate::texts::prints;
use std::alloc::Global;
use std::borrow::CowSlice;
use std::process::Abort;
use wtp_core::bytes::Polled;
use wtp_core::ids::{QStreamId, SessionId};
use wtp_core::varint::VarInt;
use wtp_wire::datagram::Datagram;
use wtp_wire::frame::{Frame, FrameOwned, FrameReading, IoReadError};
use wtp_wire::stream_header::StreamHeader;

/// Asserts the debug output of a frame.
fn check_frame<R: Abort + AllocGlobal>(rt: &R, frame: Frame<'_>, text: &str, case: &str) {
    prints(rt, &frame, text, case);
}

#[test]
fn frames_are_printed(rt: HostRuntime) {
    let text = "Frame { kind: Data, payload: [1, 255], session_id: None }";
    check_frame(
        &rt,
        Frame::new_data(CowSlice::Borrowed(&[1, 255])),
        text,
        "data",
    );
    let session = SessionId::try_from_varint(VarInt::from_u32(4)).expect(&rt, "a session");
    let text = "Frame { kind: WebTransport, payload: [], session_id: Some(4) }";
    check_frame(&rt, Frame::new_webtransport(session), text, "a session");
}

/// The result of a poll that reads a frame.
type Answer = Polled<Result<FrameOwned, IoReadError>>;

/// Returns the result of one poll.
fn answer(alloc: Global) -> Answer {
    let mut source: &[u8] = &[0x01, 0x01, 0x07];
    FrameReading::new(alloc).poll(&mut source)
}

#[test]
fn answers_are_printed(rt: HostRuntime) {
    let text = "Ready(Ok(Frame { kind: Headers, payload: [7], session_id: None }))";
    prints(&rt, &answer(rt.alloc()), text, "a frame");
    let waiting: Answer = Polled::Pending;
    prints(&rt, &waiting, "Pending", "no answer yet");
}

/// Asserts the debug output of a frame writer.
fn check_writing<R: Abort + AllocGlobal>(rt: &R) {
    let frame = Frame::new_data(CowSlice::Borrowed(&[7]));
    let text = "FrameWriting { head_sent: 0, payload_sent: 0, .. }";
    prints(rt, &frame.write_async(), text, "writing a frame");
}

/// Asserts the debug output of a stream header, its reader and its writer.
fn check_headers<R: Abort + AllocGlobal>(rt: &R) {
    let text = "HeaderReading { bytes: 0, .. }";
    prints(rt, &StreamHeader::read_async(), text, "reading a header");
    let header = StreamHeader::new_control();
    let text = "HeaderWriting { sent: 0, .. }";
    prints(rt, &header.write_async(), text, "writing a header");
    let text = "StreamHeader { kind: Control, session_id: None }";
    prints(rt, &header, text, "a header");
}

#[test]
fn states_are_printed(rt: HostRuntime) {
    let text = "FrameReading { head_bytes: 0, payload_bytes: 0, due_bytes: 0, .. }";
    prints(&rt, &Frame::read_async(rt.alloc()), text, "reading a frame");
    check_writing(&rt);
    check_headers(&rt);
    let datagram = Datagram::new(QStreamId::MAX, &[7]);
    let text = "Datagram { qstream_id: 1152921504606846975, payload: [7] }";
    prints(&rt, &datagram, text, "a datagram");
}
