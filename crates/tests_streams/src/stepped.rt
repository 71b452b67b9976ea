//! Upgrading streams poll by poll.
use crate::opened::{front, opened_here, rest, session_4, stop_fault};
use crate::same::assert_same;
use std::fmt::Display;
use std::process::Abort;
use test_io::{End, OneByteSource, ScriptedSink, stops_after};
use wtransport_proto::bytes::{AsyncRead, IoReadError as Fault, IoWriteError, Stepped, WriteStep};
use wtransport_proto::error::ErrorCode;
use wtransport_proto::ids::SessionId;
use wtransport_proto::stream::bilocal::StreamBiLocalWT;
use wtransport_proto::stream::unilocal::{StreamUniLocalH3, StreamUniLocalQuic};
use wtransport_proto::stream::uniremote::StreamUniRemoteQuic;
use wtransport_proto::stream::{BiUpgrading, IoReadError, UniAccepting, UniUpgrading};
use wtransport_proto::stream_header::{StreamHeader, StreamKind};

/// Returns the state after a poll whose source or sink was not ready.
fn take_pending<R: Abort, P: Drop, T: Drop, E: Drop>(rt: &R, stepped: Stepped<P, T, E>) -> P {
    match stepped {
        Stepped::Pending(state) => state,
        _ => rt.panic("not ready"),
    }
}

/// Returns the state and the error after a poll that failed.
fn take_failed<R: Abort, P: Drop, T: Drop, E: Drop>(rt: &R, stepped: Stepped<P, T, E>) -> (P, E) {
    match stepped {
        Stepped::Failed(state, fault) => (state, fault),
        _ => rt.panic("a fault"),
    }
}

/// Returns the result of a completed upgrade.
fn take_result<R: Abort, P: Drop, T: Drop, E: Drop>(rt: &R, stepped: Stepped<P, T, E>) -> T {
    match stepped {
        Stepped::Done(made) => made,
        _ => rt.panic("done"),
    }
}

/// Polls into the vector until the upgrade is complete, again if allocation failed.
fn make_session<R: Abort>(rt: &R, upgrading: BiUpgrading, vector: &mut Vec<u8>) -> StreamBiLocalWT {
    match upgrading.poll(vector) {
        Stepped::NoMemory(upgrading) => take_result(rt, upgrading.poll(vector)),
        stepped => take_result(rt, stepped),
    }
}

/// Asserts that the upgrade failed because its sink stopped, and that the sink accepted these
/// bytes.
fn check_stopped<R: Abort, P: Drop, T: Drop>(
    rt: &R,
    stepped: Stepped<P, T, IoWriteError>,
    sink: &ScriptedSink<'_>,
    taken: &'static [u8],
) -> P {
    let (state, fault) = take_failed(rt, stepped);
    assert_same(rt, fault, IoWriteError::Stopped, taken.len());
    assert_same(rt, sink.output(), taken, "the sink took");
    state
}

/// Asserts that these bytes are written to a vector, and that the stream of session 4 is created.
fn check_session_made<R: Abort + AllocGlobal>(rt: &R, upgrading: BiUpgrading, wire: &'static [u8]) {
    let mut vector = Vec::new(rt.alloc());
    let stream = make_session(rt, upgrading, &mut vector);
    assert_same(rt, vector.as_slice(), wire, "to a vector");
    assert_same(rt, stream.session_id(), session_4(rt), wire.len());
}

/// The frame of session 4.
const SESSION_FRAME: &[u8] = &[0x40, 0x41, 0x04];

/// The header of session 4.
const HEADER: &[u8] = &[0x40, 0x54, 0x04];

/// Returns an upgrade that writes the frame of session 4 to a new stream.
fn session_frame_4<R: Abort>(rt: &R) -> BiUpgrading {
    opened_here().upgrade_async(session_4(rt))
}

/// Asserts that the upgrade writes `room` bytes of the frame of session 4 to a sink that then
/// stops, and the remaining bytes to another sink.
fn check_bi_stop<R: Abort + AllocGlobal>(rt: &R, room: usize) {
    let mut sink = ScriptedSink::new(rt.alloc(), stops_after(room));
    let stepped = session_frame_4(rt).poll(&mut sink);
    let upgrading = check_stopped(rt, stepped, &sink, front(SESSION_FRAME, room));
    check_session_made(rt, upgrading, rest(SESSION_FRAME, room));
}

#[test]
fn a_session_frame_goes_on_elsewhere(rt: HostRuntime) {
    for room in 0..3usize {
        check_bi_stop(&rt, room);
    }
}

/// Not ready, two bytes, not ready, disconnected; then the sink accepts everything.
static HALTS: [WriteStep; 4] = [
    WriteStep::NotReady,
    WriteStep::Bytes(2),
    WriteStep::NotReady,
    WriteStep::NotConnected,
];

#[test]
fn a_session_frame_waits_for_its_sink(rt: HostRuntime) {
    let mut sink = ScriptedSink::new(rt.alloc(), &HALTS);
    let upgrading = take_pending(&rt, session_frame_4(&rt).poll(&mut sink));
    let upgrading = take_pending(&rt, upgrading.poll(&mut sink));
    assert_same(&rt, sink.output(), front(SESSION_FRAME, 2), "two bytes");
    let (upgrading, fault) = take_failed(&rt, upgrading.poll(&mut sink));
    assert_same(&rt, fault, IoWriteError::NotConnected, "lost");
    let stream = take_result(&rt, upgrading.poll(&mut sink));
    assert_same(&rt, sink.output(), SESSION_FRAME, "done");
    assert_same(&rt, stream.session_id(), session_4(&rt), "its session");
}

#[test]
fn refused_memory_hands_back_the_session_frame(rt: HostRuntime) {
    check_session_made(&rt, session_frame_4(&rt), SESSION_FRAME);
}

/// Polls into the vector until the header is written, again if allocation failed.
fn write_header<R: Abort>(
    rt: &R,
    upgrading: UniUpgrading,
    vector: &mut Vec<u8>,
) -> StreamUniLocalH3 {
    match upgrading.poll(vector) {
        Stepped::NoMemory(upgrading) => take_result(rt, upgrading.poll(vector)),
        stepped => take_result(rt, stepped),
    }
}

/// The kind and session ID of a unidirectional stream.
type Made = (StreamKind, Option<SessionId>);

/// Asserts that these bytes are written to a vector, and that this stream is created.
fn check_header_made<R: Abort + AllocGlobal>(
    rt: &R,
    upgrading: UniUpgrading,
    wire: &'static [u8],
    wanted: Made,
) {
    let mut vector = Vec::new(rt.alloc());
    let stream = write_header(rt, upgrading, &mut vector);
    assert_same(rt, vector.as_slice(), wire, "to a vector");
    let came = (stream.kind(), stream.session_id());
    assert_same(rt, came, wanted, wire.len());
}

/// Returns an upgrade that writes the header of session 4 to a new stream.
fn header_4<R: Abort>(rt: &R) -> UniUpgrading {
    let header = StreamHeader::new_webtransport(session_4(rt));
    StreamUniLocalQuic::open_uni().upgrade_async(header)
}

/// Returns the kind and session ID of a stream of session 4.
fn made_4<R: Abort>(rt: &R) -> Made {
    (StreamKind::WebTransport, Some(session_4(rt)))
}

/// Asserts that the upgrade writes `room` bytes of the header of session 4 to a sink that then
/// stops, and the remaining bytes to another sink.
fn check_uni_stop<R: Abort + AllocGlobal>(rt: &R, room: usize) {
    let mut sink = ScriptedSink::new(rt.alloc(), stops_after(room));
    let stepped = header_4(rt).poll(&mut sink);
    let upgrading = check_stopped(rt, stepped, &sink, front(HEADER, room));
    check_header_made(rt, upgrading, rest(HEADER, room), made_4(rt));
}

#[test]
fn a_header_goes_on_elsewhere(rt: HostRuntime) {
    for room in 0..3usize {
        check_uni_stop(&rt, room);
    }
}

#[test]
fn a_header_waits_for_its_sink(rt: HostRuntime) {
    let mut sink = ScriptedSink::new(rt.alloc(), &HALTS);
    let upgrading = take_pending(&rt, header_4(&rt).poll(&mut sink));
    let upgrading = take_pending(&rt, upgrading.poll(&mut sink));
    assert_same(&rt, sink.output(), front(HEADER, 2), "two bytes");
    let (upgrading, fault) = take_failed(&rt, upgrading.poll(&mut sink));
    assert_same(&rt, fault, IoWriteError::NotConnected, "lost");
    let stream = take_result(&rt, upgrading.poll(&mut sink));
    assert_same(&rt, sink.output(), HEADER, "done");
    assert_same(&rt, stream.kind(), StreamKind::WebTransport, "its kind");
}

#[test]
fn refused_memory_hands_back_the_header(rt: HostRuntime) {
    let upgrading = StreamUniLocalQuic::open_uni().upgrade_async(StreamHeader::new_control());
    check_header_made(&rt, upgrading, &[0x00], (StreamKind::Control, None));
}

/// Asserts that the stream fails with this error. Returns its state.
fn check_failed<R: Abort, S: AsyncRead>(
    rt: &R,
    accepting: UniAccepting,
    source: &mut S,
    wanted: IoReadError,
) -> UniAccepting {
    let (accepting, fault) = take_failed(rt, accepting.poll(source));
    assert_same(rt, fault, wanted, "the fault");
    accepting
}

/// Asserts that the next poll creates this stream.
fn check_accepted<R: Abort, N: Display + Drop>(
    rt: &R,
    accepting: UniAccepting,
    source: &mut &[u8],
    wanted: Made,
    case: N,
) {
    let stream = take_result(rt, accepting.poll(source));
    assert_same(rt, (stream.kind(), stream.session_id()), wanted, case);
}

/// The bytes of a header and its end, the error, and the case.
type FaultRow = (&'static [u8], IoReadError, &'static str);

/// Headers that are rejected.
static FAULTS: [FaultRow; 4] = [
    (b"", IoReadError::IO(Fault::ImmediateFin), "nothing"),
    (b"\x40\x54", IoReadError::H3(ErrorCode::Frame), "cut"),
    (
        b"\x40\x54\x01",
        IoReadError::H3(ErrorCode::Id),
        "no session",
    ),
    (
        b"\x40\x42",
        IoReadError::H3(ErrorCode::StreamCreation),
        "an unknown type",
    ),
];

/// Asserts that the header of a row is rejected with its error, and that no byte is left.
fn check_refusal<R: Abort>(rt: &R, row: &FaultRow) {
    let (bytes, fault, case) = row;
    let mut source = *bytes;
    let accepting = StreamUniRemoteQuic::accept_uni().upgrade_async();
    let (_, came) = take_failed(rt, accepting.poll(&mut source));
    assert_same(rt, &came, fault, case);
    assert_same(rt, source.len(), 0, case);
}

#[test]
fn faults_of_the_header_hand_it_back(rt: HostRuntime) {
    for row in &FAULTS {
        check_refusal(&rt, row);
    }
}

#[test]
fn headers_are_accepted(rt: HostRuntime) {
    let mut source = b"\x00\x04\x00".as_slice();
    let accepting = StreamUniRemoteQuic::accept_uni().upgrade_async();
    let wanted = (StreamKind::Control, None);
    check_accepted(&rt, accepting, &mut source, wanted, "control");
    assert_same(&rt, source, b"\x04\x00".as_slice(), "bytes left");
}

#[test]
fn a_cut_header_is_accepted_from_a_second_source(rt: HostRuntime) {
    let accepting = StreamUniRemoteQuic::accept_uni().upgrade_async();
    let cut = IoReadError::H3(ErrorCode::Frame);
    let accepting = check_failed(&rt, accepting, &mut front(HEADER, 2), cut);
    let wanted = made_4(&rt);
    check_accepted(&rt, accepting, &mut rest(HEADER, 2), wanted, "a session");
}

/// Asserts the error after the first `len` bytes of the header of session 4, with a wait before
/// each and before the end, twice. Then asserts that the header is read with the remaining bytes.
fn check_header_stop<R: Abort>(rt: &R, len: usize, end: End) {
    let mut source = OneByteSource::new(front(HEADER, len), end);
    let mut accepting = StreamUniRemoteQuic::accept_uni().upgrade_async();
    for _turn in 0..=len {
        accepting = take_pending(rt, accepting.poll(&mut source));
    }
    let accepting = check_failed(rt, accepting, &mut source, stop_fault(len, end));
    let accepting = check_failed(rt, accepting, &mut source, stop_fault(len, end));
    check_accepted(rt, accepting, &mut rest(HEADER, len), made_4(rt), len);
}

/// All endings of a source.
static ENDS: [End; 3] = End::ALL;

#[test]
fn a_header_may_stop_at_each_place(rt: HostRuntime) {
    for len in 0..3usize {
        for end in &ENDS {
            check_header_stop(&rt, len, *end);
        }
    }
}
