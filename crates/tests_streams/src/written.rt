//! Writing frames to streams, poll by poll and in a loop. A struct preserves the precondition of
//! each poll.
ghost use Rattle.wtransport_proto.specs.StreamWriting.{WritesPlain};
ghost use Rattle.wtransport_proto.specs.Streams.{CanWrite};

use crate::opened::{front, open_session, opened_here, opened_there, rest};
use crate::same::assert_same;
use std::borrow::CowSlice;
use std::mem::drop;
use std::process::Abort;
use test_io::{ScriptedSink, stops_after};
use wtransport_proto::bytes::{AsyncWrite, IoWriteError, Polled, Stepped, WriteStep};
use wtransport_proto::frame::{Frame, FrameWriting};
use wtransport_proto::stream::bilocal::StreamBiLocalH3;
use wtransport_proto::stream::biremote::StreamBiRemoteH3;
use wtransport_proto::stream::session::StreamSession;
use wtransport_proto::stream::unilocal::{StreamUniLocalH3, StreamUniLocalQuic};
use wtransport_proto::stream_header::StreamHeader;

/// The result of one poll.
type SendAnswer = Polled<Result<(), IoWriteError>>;

const DONE: SendAnswer = Polled::Ready(Ok(()));

/// A frame that is being written to a stream by the stream's own call.
trait Sends {
    fn send<W: AsyncWrite>(&mut self, sink: &mut W) -> SendAnswer;
}

/// A frame that is being written to a bidirectional stream that this end opened.
#[derive(Drop)]
struct ToBoth<'a> {
    stream: StreamBiLocalH3,
    writing: FrameWriting<'a>,
    ghost plain: { WritesPlain writing },
}

impl Sends for ToBoth<'_> {
    fn send<W: AsyncWrite>(&mut self, sink: &mut W) -> SendAnswer {
        self.stream.write_frame_async(&mut self.writing, sink)
    }
}

/// A frame that is being written to a unidirectional stream.
#[derive(Drop)]
struct ToOne<'a> {
    stream: StreamUniLocalH3,
    writing: FrameWriting<'a>,
    ghost writable: { CanWrite stream },
}

impl Sends for ToOne<'_> {
    fn send<W: AsyncWrite>(&mut self, sink: &mut W) -> SendAnswer {
        self.stream.write_frame_async(&mut self.writing, sink)
    }
}

/// A frame that is being written to a bidirectional stream that the peer opened.
#[derive(Drop)]
struct ToPeer<'a> {
    stream: StreamBiRemoteH3,
    writing: FrameWriting<'a>,
}

impl Sends for ToPeer<'_> {
    fn send<W: AsyncWrite>(&mut self, sink: &mut W) -> SendAnswer {
        self.stream.write_frame_async(&mut self.writing, sink)
    }
}

/// A frame that is being written to the stream of a session.
#[derive(Drop)]
struct ToSession<'a> {
    stream: StreamSession,
    writing: FrameWriting<'a>,
}

impl Sends for ToSession<'_> {
    fn send<W: AsyncWrite>(&mut self, sink: &mut W) -> SendAnswer {
        self.stream.write_frame_async(&mut self.writing, sink)
    }
}

/// Polls once, and again if allocation failed.
fn send_again<K: Sends, W: AsyncWrite>(sending: &mut K, sink: &mut W) -> SendAnswer {
    match sending.send(sink) {
        Polled::NoMemory => sending.send(sink),
        answer => answer,
    }
}

/// Asserts that the frame is sent, and that these bytes were written.
fn check_sent<R: Abort>(rt: &R, answer: SendAnswer, came: &[u8], wire: &'static [u8]) {
    assert_same(rt, (answer, came), (DONE, wire), "all is sent");
}

/// Asserts that the rest of the frame is written to a vector, as these bytes.
fn check_rest<R: Abort + AllocGlobal, K: Sends>(rt: &R, sending: &mut K, wire: &'static [u8]) {
    let mut vector = Vec::new(rt.alloc());
    let answer = send_again(sending, &mut vector);
    check_sent(rt, answer, vector.as_slice(), wire);
}

/// A DATA frame with the payload `abc`.
const DATA: &[u8] = b"\x00\x03abc";

/// Asserts that `room` bytes of a DATA frame are written to a sink that then stops, and the
/// remaining bytes to another sink. The stream can be upgraded until all bytes are sent.
fn check_stop<R: Abort + AllocGlobal>(rt: &R, room: usize) {
    let frame = Frame::new_data(CowSlice::Borrowed(b"abc"));
    let mut sending = ToBoth {
        stream: opened_here(),
        writing: frame.write_async(),
    };
    let mut sink = ScriptedSink::new(rt.alloc(), stops_after(room));
    let answer = sending.send(&mut sink);
    let came = (answer, sink.output(), sending.stream.can_upgrade());
    let stopped = Polled::Ready(Err(IoWriteError::Stopped));
    assert_same(rt, came, (stopped, front(DATA, room), true), room);
    check_rest(rt, &mut sending, rest(DATA, room));
    assert_same(rt, sending.stream.can_upgrade(), false, room);
}

#[test]
fn a_frame_goes_on_elsewhere(rt: HostRuntime) {
    for room in 0..5usize {
        check_stop(&rt, room);
    }
}

/// The result of a poll with a sink that halts, whether the stream can be upgraded after it, and
/// the case.
type HaltRow = (SendAnswer, bool, &'static str);

/// Asserts the result of a poll by its row.
fn check_halt<R: Abort>(
    rt: &R,
    sending: &mut ToBoth<'_>,
    sink: &mut ScriptedSink<'_>,
    row: &HaltRow,
) {
    let (answer, can_upgrade, case) = row;
    let came = sending.send(sink);
    let upgradable = sending.stream.can_upgrade();
    assert_same(rt, (&came, upgradable), (answer, *can_upgrade), case);
}

/// The polls with a sink that halts.
static HALTING: [HaltRow; 5] = [
    (Polled::Pending, true, "not ready"),
    (Polled::Pending, true, "two bytes, and not ready"),
    (
        Polled::Ready(Err(IoWriteError::NotConnected)),
        true,
        "not connected",
    ),
    (DONE, false, "the last byte"),
    (DONE, false, "all is sent"),
];

/// A sink that halts, and would stop after the last byte.
static HALTS: [WriteStep; 6] = [
    WriteStep::NotReady,
    WriteStep::Bytes(2),
    WriteStep::NotReady,
    WriteStep::NotConnected,
    WriteStep::Bytes(1),
    WriteStep::Stopped,
];

/// Once the frame is sent, the sink is not called again.
#[test]
fn a_frame_that_was_written_ends_upgrading(rt: HostRuntime) {
    let frame = Frame::new_data(CowSlice::Borrowed(b"a"));
    let mut sending = ToBoth {
        stream: opened_here(),
        writing: frame.write_async(),
    };
    let mut sink = ScriptedSink::new(rt.alloc(), &HALTS);
    for row in &HALTING {
        check_halt(&rt, &mut sending, &mut sink, row);
    }
    assert_same(&rt, sink.left(), 1, "the sink is not called");
    assert_same(&rt, sink.output(), b"\x00\x01a".as_slice(), "the sink");
}

/// Polls once. If allocation failed, asserts that the stream can still be upgraded, and polls
/// again.
fn send_refused<R: Abort>(rt: &R, sending: &mut ToBoth<'_>, vector: &mut Vec<u8>) -> SendAnswer {
    match sending.send(vector) {
        Polled::NoMemory => {
            assert_same(rt, sending.stream.can_upgrade(), true, "refused");
            sending.send(vector)
        }
        answer => answer,
    }
}

#[test]
fn refused_memory_for_a_frame_is_asked_for_again(rt: HostRuntime) {
    let frame = Frame::new_data(CowSlice::Borrowed(b"abc"));
    let mut sending = ToBoth {
        stream: opened_here(),
        writing: frame.write_async(),
    };
    let mut vector = Vec::new(rt.alloc());
    let answer = send_refused(&rt, &mut sending, &mut vector);
    check_sent(&rt, answer, vector.as_slice(), DATA);
    assert_same(&rt, sending.stream.can_upgrade(), false, "written");
}

#[test]
fn a_frame_is_written_whole(rt: HostRuntime) {
    let frame = Frame::new_data(CowSlice::Borrowed(b"a"));
    let mut sending = ToBoth {
        stream: opened_here(),
        writing: frame.write_async(),
    };
    check_rest(&rt, &mut sending, b"\x00\x01a");
    assert_same(&rt, sending.stream.can_upgrade(), false, "written whole");
}

#[test]
fn a_stream_that_was_opened_there_is_written(rt: HostRuntime) {
    let frame = Frame::new_data(CowSlice::Borrowed(b"abc"));
    let mut sending = ToPeer {
        stream: opened_there(),
        writing: frame.write_async(),
    };
    check_rest(&rt, &mut sending, DATA);
}

/// A HEADERS frame is written to the stream of a session.
#[test]
fn the_stream_of_a_session_is_written(rt: HostRuntime) {
    let frame = Frame::new_headers(CowSlice::Borrowed(&[0x00, 0x00]));
    let mut sending = ToSession {
        stream: open_session(rt.alloc()).expect(&rt, "memory"),
        writing: frame.write_async(),
    };
    check_rest(&rt, &mut sending, &[0x01, 0x02, 0x00, 0x00]);
    drop(sending);
}

/// Returns a frame that is being written to a control stream, whose type is written to the
/// vector.
fn to_control<'a, R: Abort>(rt: &R, frame: &'a Frame<'_>, vector: &mut Vec<u8>) -> ToOne<'a> {
    let upgrading = StreamUniLocalQuic::open_uni().upgrade_async(StreamHeader::new_control());
    let Stepped::Done(stream) = upgrading.poll(vector) else {
        rt.panic("a control stream")
    };
    ToOne {
        stream,
        writing: frame.write_async(),
    }
}

/// A control stream: its type, and a SETTINGS frame with one setting.
const CONTROL: &[u8] = &[0x00, 0x04, 0x02, 0x33, 0x01];

/// Returns a SETTINGS frame with one setting.
fn settings() -> Frame<'static> {
    Frame::new_settings(CowSlice::Borrowed(&[0x33, 0x01]))
}

/// The stream type and the settings are written to one vector.
#[test]
fn a_control_stream_is_written(rt: HostRuntime) {
    let mut vector = Vec::new(rt.alloc());
    let frame = settings();
    let mut sending = to_control(&rt, &frame, &mut vector);
    let answer = send_again(&mut sending, &mut vector);
    check_sent(&rt, answer, vector.as_slice(), CONTROL);
}

/// The maximum number of waits of a sink.
const TURNS: usize = 20;

/// A sink that is not ready twice.
static WAITS: [WriteStep; 3] = [
    WriteStep::NotReady,
    WriteStep::Bytes(2),
    WriteStep::NotReady,
];

/// Writes the frame, and polls again while the sink is not ready.
fn write_on<K: Sends, W: AsyncWrite>(sending: &mut K, sink: &mut W) -> SendAnswer {
    for _turn in 0..TURNS {
        match sending.send(sink) {
            Polled::Pending | Polled::NoMemory => {}
            answer => return answer,
        }
    }
    Polled::Pending
}

#[test]
fn a_frame_is_written_in_a_loop(rt: HostRuntime) {
    let mut sink = ScriptedSink::new(rt.alloc(), &WAITS);
    let frame = Frame::new_data(CowSlice::Borrowed(b"abc"));
    let mut sending = ToBoth {
        stream: opened_here(),
        writing: frame.write_async(),
    };
    let answer = write_on(&mut sending, &mut sink);
    check_sent(&rt, answer, sink.output(), DATA);
    assert_same(&rt, sending.stream.can_upgrade(), false, "written");
}

/// The stream type is written to another sink.
#[test]
fn settings_are_written_in_a_loop(rt: HostRuntime) {
    let mut sink = ScriptedSink::new(rt.alloc(), &WAITS);
    let frame = settings();
    let mut sending = to_control(&rt, &frame, &mut Vec::new(rt.alloc()));
    let answer = write_on(&mut sending, &mut sink);
    check_sent(&rt, answer, sink.output(), rest(CONTROL, 1));
}
