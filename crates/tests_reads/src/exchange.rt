//! Sending a header map over a stream, completely into a vector, and reading it back from the
//! same bytes.
use crate::same::assert_same;
use std::alloc::{AllocError, Global};
use std::process::Abort;
use wtransport_proto::bytes::IoReadError;
use wtransport_proto::error::{ErrorCode, Refused};
use wtransport_proto::exchange::{self, ExchangeError, ReceiveError, SendError};
use wtransport_proto::frame::{FrameKind, GenerateError};
use wtransport_proto::headers::Headers;
use wtransport_proto::session::{SessionRequest, UrlParseError};
use wtransport_proto::stream;
use wtransport_proto::stream::ReadsFrames;
use wtransport_proto::stream::bilocal::StreamBiLocalQuic;
use wtransport_proto::stream::biremote::StreamBiRemoteQuic;

const PAIRS: [(&str, &str); 3] = [("b", "1"), (":z", "2"), ("a", "3")];

/// The HEADERS frame of the pairs.
const FRAME: &[u8] = b"\x01\x0f\x00\x00\x22:z\x012\x21a\x013\x21b\x011";

/// An unknown frame, the HEADERS frame of the pairs, and a DATA frame.
const BYTES: &[u8] = b"\x0a\x01!\x01\x0f\x00\x00\x22:z\x012\x21a\x013\x21b\x011\x00\x01x";

/// The DATA frame.
const REST: &[u8] = b"\x00\x01x";

/// Returns the map of the pairs.
fn made_once(alloc: Global) -> Result<Headers, AllocError> {
    Headers::from_iter(alloc, PAIRS.iter().copied())
}

/// Returns the map of the pairs, built again if allocation failed.
fn made(alloc: Global) -> Result<Headers, AllocError> {
    match made_once(alloc) {
        Err(AllocError) => made_once(alloc),
        outcome => outcome,
    }
}

/// Returns a request, built again if allocation failed.
fn request(alloc: Global) -> Result<SessionRequest, UrlParseError> {
    match SessionRequest::new(alloc, "https://example.com") {
        Err(UrlParseError::Memory) => SessionRequest::new(alloc, "https://example.com"),
        outcome => outcome,
    }
}

/// The map that was read back, or the error.
type Way = Result<Headers, ExchangeError>;

/// Returns whether an allocation failed.
fn lacks_memory(way: &Way) -> bool {
    match way {
        Ok(_) => false,
        Err(error) => is_out_of_memory(error),
    }
}

/// Returns whether an allocation failed while sending or receiving.
fn is_out_of_memory(error: &ExchangeError) -> bool {
    match error {
        ExchangeError::Frame(error) => *error == GenerateError::Memory,
        ExchangeError::Send(error) => *error == SendError::Memory,
        ExchangeError::Receive(error) => is_receive_out_of_memory(error),
    }
}

/// Returns whether an allocation failed while receiving.
fn is_receive_out_of_memory(error: &ReceiveError) -> bool {
    match error {
        ReceiveError::Memory => true,
        ReceiveError::Section(error) => *error == Refused::Memory,
        _ => false,
    }
}

/// Sends the map into the vector and reads a map back from the bytes, each in a bounded number of
/// turns.
fn travel<K: ReadsFrames>(
    alloc: Global,
    headers: &Headers,
    sink: &mut Vec<u8>,
    stream: &mut K,
    source: &mut &[u8],
    turns: u32,
) -> Way
    requires { K.can stream.old }
    ensures { K.can stream.new }
{
    exchange::send_and_receive(alloc, headers, sink, stream, source, turns)
}

/// Sends and reads back, again if allocation failed.
fn travel_again<K: ReadsFrames>(
    rt: &impl Abort,
    alloc: Global,
    headers: &Headers,
    sink: &mut Vec<u8>,
    stream: &mut K,
    source: &mut &[u8],
) -> Way
    requires { K.can stream.old }
{
    let way = travel(alloc, headers, sink, stream, source, 2);
    if !lacks_memory(&way) {
        return way;
    }
    let is_front = FRAME.starts_with(sink.as_slice());
    assert_same(rt, is_front, true, "what was sent before");
    sink.clear();
    *source = BYTES;
    travel(alloc, headers, sink, stream, source, 2)
}

/// Asserts that the map contains the pairs.
fn check_back<R: Abort>(rt: &R, back: &Headers, word: &str) {
    assert_same(rt, back.as_ref().len(), 3, word);
    let came = (back.get("b"), back.get(":z"), back.get("a"));
    assert_same(rt, came, (Some("1"), Some("2"), Some("3")), word);
}

/// Asserts that the map is sent completely into a vector and is read back from the bytes.
fn travels<K: ReadsFrames>(
    rt: &impl Abort,
    alloc: Global,
    headers: &Headers,
    stream: &mut K,
    word: &str,
)
    requires { K.can stream.old }
{
    let mut sink = Vec::new(alloc);
    let mut source = BYTES;
    let way = travel_again(rt, alloc, headers, &mut sink, stream, &mut source);
    assert_same(rt, (sink.as_slice(), source), (FRAME, REST), word);
    check_back(rt, &way.expect(rt, "a map"), word);
}

#[test]
fn a_map_comes_back(rt: HostRuntime) {
    let headers = made(rt.alloc()).expect(&rt, "memory");
    let mut remote = StreamBiRemoteQuic::accept_bi().upgrade();
    travels(&rt, rt.alloc(), &headers, &mut remote, "the peer's stream");
    let mut local = StreamBiLocalQuic::open_bi().upgrade();
    travels(&rt, rt.alloc(), &headers, &mut local, "an own stream");
    let mut session = local.into_session(request(rt.alloc()).expect(&rt, "a request"));
    travels(
        &rt,
        rt.alloc(),
        &headers,
        &mut session,
        "a session's stream",
    );
}

/// Asserts that there were too few turns to send, or that allocation for the frame failed.
fn check_waiting<R: Abort>(rt: &R, error: Option<ExchangeError>) {
    let waiting = Some(ExchangeError::Send(SendError::Waiting));
    match error {
        Some(ExchangeError::Frame(error)) => assert_same(
            rt,
            error,
            GenerateError::Memory,
            "the frame",
        ),
        error => assert_same(rt, error, waiting, "the way"),
    }
}

#[test]
fn no_turn_touches_nothing(rt: HostRuntime) {
    let headers = made(rt.alloc()).expect(&rt, "memory");
    let mut stream = StreamBiRemoteQuic::accept_bi().upgrade();
    let mut sink = Vec::new(rt.alloc());
    let mut source = BYTES;
    let way = travel(rt.alloc(), &headers, &mut sink, &mut stream, &mut source, 0);
    check_waiting(&rt, way.err());
    assert_same(&rt, (sink.is_empty(), source), (true, BYTES), "both ends");
}

/// Asserts the error of reading a map from bytes that need no allocation, on a stream that the
/// peer opened.
fn check_refusal<R: Abort + AllocGlobal>(
    rt: &R,
    bytes: &[u8],
    turns: u32,
    wanted: ReceiveError,
    word: &str,
) {
    let mut stream = StreamBiRemoteQuic::accept_bi().upgrade();
    let mut source = bytes;
    let outcome = exchange::receive(rt.alloc(), &mut stream, &mut source, turns);
    assert_same(rt, outcome.err(), Some(wanted), word);
}

#[test]
fn other_bytes_are_no_map(rt: HostRuntime) {
    check_refusal(&rt, FRAME, 0, ReceiveError::Waiting, "no turn");
    check_refusal(&rt, b"\x0a\x00", 1, ReceiveError::Waiting, "unknown");
    let ended = ReceiveError::Stream(stream::IoReadError::IO(IoReadError::ImmediateFin));
    check_refusal(&rt, b"", 1, ended, "nothing");
    let cut = ReceiveError::Stream(stream::IoReadError::H3(ErrorCode::Frame));
    check_refusal(&rt, b"\x01", 1, cut, "a cut frame");
    let unexpected = ReceiveError::Stream(stream::IoReadError::H3(ErrorCode::FrameUnexpected));
    check_refusal(&rt, b"\x04\x00", 1, unexpected, "settings");
    let other = ReceiveError::OtherKind(FrameKind::Data);
    check_refusal(&rt, b"\x00\x00", 1, other, "data");
    let section = ReceiveError::Section(Refused::Code(ErrorCode::Decompression));
    check_refusal(&rt, b"\x01\x00", 1, section, "empty headers");
}
