//! A server's first steps over slices: reading a request and responding to it.
use crate::same::assert_same;
use std::alloc::{AllocError, Global};
use std::process::Abort;
use wtransport_proto::bytes::BufferReader;
use wtransport_proto::frame::Frame;
use wtransport_proto::session::{SessionRequest, SessionResponse, request_of_frame};
use wtransport_proto::stream::bilocal::StreamBiLocalQuic;
use wtransport_proto::stream::biremote::{StreamBiRemoteH3, StreamBiRemoteQuic};
use wtransport_proto::stream::session::StreamSession;

/// Responds to the request at the start of a stream that the peer opened. Returns the session's
/// stream, or `None` if more bytes are needed.
fn serve<R: Abort>(
    rt: &R,
    alloc: Global,
    bytes: &[u8],
    answer: &mut Vec<u8>,
) -> Option<StreamSession> {
    let mut stream = StreamBiRemoteQuic::accept_bi().upgrade();
    let mut reader = BufferReader::new(bytes);
    let read = stream.read_frame_from_buffer(&mut reader);
    match read.expect(rt, "a frame") {
        Some(frame) => Some(respond(rt, alloc, stream, &frame, answer)),
        None => None,
    }
}

/// Responds to the request. Returns the session's stream.
fn respond<R: Abort>(
    rt: &R,
    alloc: Global,
    stream: StreamBiRemoteH3,
    frame: &Frame<'_>,
    answer: &mut Vec<u8>,
) -> StreamSession {
    let request = request_of_frame(alloc, frame).expect(rt, "a request");
    write_response(rt, alloc, &stream, request.path(), answer);
    stream.into_session(request)
}

/// Writes the frame of the response for a path.
fn write_response<R: Abort>(
    rt: &R,
    alloc: Global,
    stream: &StreamBiRemoteH3,
    path: &str,
    answer: &mut Vec<u8>,
) {
    let response = response_for(alloc, path).expect(rt, "memory");
    let frame = response
        .headers()
        .generate_frame(alloc)
        .expect(rt, "memory");
    stream.write_frame(frame, answer).expect(rt, "memory");
}

/// Returns the response for a path.
fn response_for(alloc: Global, path: &str) -> Result<SessionResponse, AllocError> {
    if path == "/chat" {
        return SessionResponse::ok(alloc);
    }
    SessionResponse::not_found(alloc)
}

/// Returns the bytes that a client sends for this URL: the frame of the request, on its own
/// stream.
fn request_bytes<R: Abort>(rt: &R, alloc: Global, url: &str) -> Vec<u8> {
    let request = SessionRequest::new(alloc, url).expect(rt, "a request");
    let frame = request.headers().generate_frame(alloc).expect(rt, "memory");
    let mut stream = StreamBiLocalQuic::open_bi().upgrade();
    let mut bytes = Vec::new(alloc);
    stream.write_frame(frame, &mut bytes).expect(rt, "memory");
    bytes
}

/// A client's URL, the path that the server receives, and the bytes of the response: the name
/// `:status` at index 24 of the static table (RFC 9204, appendix A), and 200 in the Huffman code
/// or 404 without it, which has the same length.
type AnswerRow = (&'static str, &'static str, &'static [u8]);

/// Requests and their responses.
static ANSWERS: [AnswerRow; 2] = [
    (
        "https://example.com/chat",
        "/chat",
        b"\x01\x07\x00\x00\x5f\x09\x82\x10\x01",
    ),
    (
        "https://example.com/other",
        "/other",
        b"\x01\x08\x00\x00\x5f\x09\x03404",
    ),
];

/// Asserts the response to the request of a row.
fn check_answer<R: Abort>(rt: &R, alloc: Global, row: &AnswerRow) {
    let (url, path, expected) = *row;
    let bytes = request_bytes(rt, alloc, url);
    let mut answer = Vec::new(alloc);
    let stream = serve(rt, alloc, bytes.as_slice(), &mut answer).expect(rt, "a session");
    let request = stream.request();
    let came = (request.authority(), request.path(), answer.as_slice());
    assert_same(rt, came, ("example.com", path, expected), url);
}

#[test]
fn a_request_is_answered(rt: HostRuntime) {
    for row in &ANSWERS {
        check_answer(&rt, rt.alloc(), row);
    }
}

#[test]
fn a_request_that_is_not_whole_is_waited_for(rt: HostRuntime) {
    let mut bytes = request_bytes(&rt, rt.alloc(), "https://example.com/chat");
    let last = bytes.pop();
    let mut answer = Vec::new(rt.alloc());
    let stream = serve(&rt, rt.alloc(), bytes.as_slice(), &mut answer);
    let came = (last.is_some(), stream.is_none(), answer.is_empty());
    assert_same(&rt, came, (true, true, true), "no answer");
}
