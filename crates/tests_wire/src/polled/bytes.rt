//! Numbers and buffers, read and written poll by poll.
use crate::polled::readings::{
    ENDS, NewReading, Reading, assert_same_of, check_answers, check_each, check_end, check_fronts,
    check_pending, check_slow, check_whole,
};
use crate::polled::writings::{DONE, Writing, check_refused, check_stopped, check_written};
use crate::same::assert_same;
use std::alloc::Global;
use std::fmt::Display;
use std::io;
use std::io::ErrorKind;
use std::process::Abort;
use test_io::{End, OneByteSource, ScriptedSink, ScriptedSource};
use wtp_core::bytes::{
    AsyncRead, BytesReaderAsync, BytesWriterAsync, GetBuffer, GetVarint, IoReadError, IoWriteError,
    Polled, PutBuffer, PutVarint, ReadStep, WriteStep,
};
use wtp_core::varint::VarInt;

/// The result of a poll that reads a number.
type Number = Polled<Result<u64, IoReadError>>;

/// Polls a reader of a number once.
fn polled<S: AsyncRead>(reading: &mut GetVarint, source: &mut S) -> Number {
    match reading.poll(source) {
        Polled::Ready(Ok(number)) => Polled::Ready(Ok(number.into_inner())),
        Polled::Ready(Err(stop)) => Polled::Ready(Err(stop)),
        Polled::Pending => Polled::Pending,
        Polled::Again => Polled::Again,
        Polled::NoMemory => Polled::NoMemory,
    }
}

impl Reading for GetVarint {
    type Ready = Result<u64, IoReadError>;

    fn stopped(stop: IoReadError) -> Number {
        Polled::Ready(Err(stop))
    }

    fn check<R: Abort, S: AsyncRead, N: Display + Drop>(
        &mut self,
        rt: &R,
        source: &mut S,
        wanted: &Number,
        row: &[u8],
        case: N,
    ) {
        let came = polled(self, source);
        assert_same_of(rt, row, &came, wanted, case);
    }
}

impl NewReading for GetVarint {
    fn new_reading(_alloc: Global) -> Self {
        GetVarint::new()
    }
}

/// Numbers, and their shortest encodings.
static ROWS: [(u64, &[u8]); 4] = [
    (37, &[0x25]),
    (15293, &[0x7b, 0xbd]),
    (494878333, &[0x9d, 0x7f, 0x3e, 0x7d]),
    (
        151288809941952652,
        &[0xc2, 0x19, 0x7c, 0x5e, 0xff, 0x14, 0xe8, 0x8c],
    ),
];

/// Asserts that a number is read from its bytes, at once and one by one, each time followed by
/// the end.
fn check_number_read<R: Abort>(rt: &R, number: u64, bytes: &[u8]) {
    let wanted = Polled::Ready(Ok(number));
    let mut whole = bytes;
    check_whole(rt, &mut whole.get_varint(), bytes, &wanted);
    let mut slow = OneByteSource::new(bytes, End::Fin);
    check_slow(rt, &mut slow.get_varint(), bytes, &wanted);
}

#[test]
fn numbers_are_read(rt: HostRuntime) {
    for (number, bytes) in &ROWS {
        check_number_read(&rt, *number, bytes);
    }
}

#[test]
fn cut_numbers_end(rt: HostRuntime) {
    for (_, bytes) in &ROWS {
        check_fronts::<_, GetVarint>(&rt, bytes);
    }
}

/// The results of polling for one number, and then for a missing one.
const READ_ON: [Number; 3] = [
    Polled::Pending,
    Polled::Ready(Ok(15293)),
    Polled::Ready(Err(IoReadError::ImmediateFin)),
];

#[test]
fn a_number_is_read_on(rt: HostRuntime) {
    let mut source = ScriptedSource::new(&[0x7b, 0xbd], &[ReadStep::Bytes(1), ReadStep::NotReady]);
    let mut reading = source.get_varint();
    check_each(&rt, &mut reading, &mut source, &READ_ON, &[0x7b, 0xbd]);
}

/// Interruptions before each byte, for a source without a model.
const STOPS: [ReadStep; 6] = [
    ReadStep::Reset,
    ReadStep::Bytes(1),
    ReadStep::NotConnected,
    ReadStep::Bytes(1),
    ReadStep::Bytes(0),
    ReadStep::Bytes(2),
];

/// The results of polling for one number with these interruptions.
const PAST_STOPS: [Number; 4] = [
    Polled::Ready(Err(IoReadError::Reset)),
    Polled::Ready(Err(IoReadError::NotConnected)),
    Polled::Ready(Err(IoReadError::UnexpectedFin)),
    Polled::Ready(Ok(494878333)),
];

/// The bytes of this number, followed by one more byte.
const NUMBER_AND_MORE: &[u8; 5] = &[0x9d, 0x7f, 0x3e, 0x7d, 0x25];

#[test]
fn a_number_is_read_past_stops(rt: HostRuntime) {
    let mut reading = GetVarint::new();
    let rest = check_answers(&rt, &mut reading, (NUMBER_AND_MORE, &STOPS), &PAST_STOPS);
    assert_same(&rt, rest, &[0x25], "the byte after the number");
}

const TEXT: &[u8; 12] = b"WebTransport";

/// The result of a poll that reads into a buffer.
type Filled = Polled<Result<(), IoReadError>>;

/// The buffer is full.
const FULL: Filled = Polled::Ready(Ok(()));

impl Reading for GetBuffer<'_> {
    type Ready = Result<(), IoReadError>;

    fn stopped(stop: IoReadError) -> Filled {
        Polled::Ready(Err(stop))
    }

    fn check<R: Abort, S: AsyncRead, N: Display + Drop>(
        &mut self,
        rt: &R,
        source: &mut S,
        wanted: &Filled,
        row: &[u8],
        case: N,
    ) {
        let came = self.poll(source);
        assert_same_of(rt, row, &came, wanted, case);
    }
}

/// Asserts the results of polls that read into a buffer, and the bytes then in it.
fn check_filled<R: Abort, S: AsyncRead>(
    rt: &R,
    source: &mut S,
    buffer: &mut [u8],
    each: &[Filled],
    bytes: &[u8],
) {
    let mut reading = source.get_buffer(buffer);
    check_each(rt, &mut reading, source, each, bytes);
    assert_same(rt, &*buffer, bytes, "the buffer");
}

#[test]
fn a_buffer_is_filled(rt: HostRuntime) {
    let mut whole = b"WebTransport!".as_slice();
    check_filled(&rt, &mut whole, &mut [0; 12], &[FULL, FULL], TEXT);
    assert_same(&rt, whole, b"!", "the rest");
}

/// The results of polling for twelve bytes that arrive one by one.
static SLOWLY_FULL: [Filled; 14] = [
    Polled::Pending,
    Polled::Pending,
    Polled::Pending,
    Polled::Pending,
    Polled::Pending,
    Polled::Pending,
    Polled::Pending,
    Polled::Pending,
    Polled::Pending,
    Polled::Pending,
    Polled::Pending,
    Polled::Pending,
    FULL,
    FULL,
];

#[test]
fn a_buffer_is_filled_byte_by_byte(rt: HostRuntime) {
    let mut slow = OneByteSource::new(TEXT, End::Fin);
    check_filled(&rt, &mut slow, &mut [0; 12], &SLOWLY_FULL, TEXT);
}

/// Asserts the results for the first bytes of a buffer, one by one up to each end.
fn check_cut_buffer<R: Abort>(rt: &R, front: &[u8]) {
    for end in &ENDS {
        let mut buffer = [0; 12];
        check_end(rt, &mut GetBuffer::new(&mut buffer), front, *end);
        assert_same(rt, buffer.get(..front.len()), Some(front), "the buffer");
    }
}

#[test]
fn cut_buffers_end(rt: HostRuntime) {
    for len in 0..12usize {
        check_cut_buffer(&rt, TEXT.get(..len).unwrap_or(&[]));
    }
}

/// The results of polling for one buffer with the interruptions.
const FULL_PAST_STOPS: [Filled; 4] = [
    Polled::Ready(Err(IoReadError::Reset)),
    Polled::Ready(Err(IoReadError::NotConnected)),
    Polled::Ready(Err(IoReadError::UnexpectedFin)),
    FULL,
];

#[test]
fn a_buffer_is_filled_past_stops(rt: HostRuntime) {
    let mut source = ScriptedSource::new(b"Web!", &STOPS);
    check_filled(&rt, &mut source, &mut [0; 3], &FULL_PAST_STOPS, b"Web");
    assert_same(&rt, source.rest(), b"!", "the rest");
}

#[test]
fn an_empty_buffer_is_full(rt: HostRuntime) {
    let mut source = ScriptedSource::new(TEXT, &[ReadStep::Reset]);
    check_filled(&rt, &mut source, &mut [], &[FULL], &[]);
    assert_same(&rt, source.left(), 1, "no call");
}

/// Asserts that a number is written into a vector and into a slow sink.
fn check_number_written<R: Abort + AllocGlobal>(rt: &R, number: u64, bytes: &[u8]) {
    let varint = VarInt::try_from_u64(number).expect(rt, "a number");
    let mut whole = Vec::new(rt.alloc()).put_varint(varint);
    let mut slow = ScriptedSink::new(rt.alloc(), &[]).put_varint(varint);
    check_written(rt, &mut whole, &mut slow, bytes);
}

#[test]
fn numbers_are_written(rt: HostRuntime) {
    for (number, bytes) in &ROWS {
        check_number_written(&rt, *number, bytes);
    }
}

#[test]
fn a_buffer_is_written(rt: HostRuntime) {
    let mut whole = Vec::new(rt.alloc()).put_buffer(TEXT);
    let mut slow = ScriptedSink::new(rt.alloc(), &[]).put_buffer(TEXT);
    check_written(&rt, &mut whole, &mut slow, TEXT);
}

#[test]
fn a_stopped_number_is_written_on(rt: HostRuntime) {
    let bytes = [0x9d, 0x7f, 0x3e, 0x7d];
    for sent in 0..=3usize {
        let mut writing = PutVarint::new(VarInt::from_u32(494878333));
        check_stopped(&rt, &mut writing, &bytes, sent);
    }
}

#[test]
fn a_stopped_buffer_is_written_on(rt: HostRuntime) {
    for sent in 0..=3usize {
        check_stopped(&rt, &mut PutBuffer::new(TEXT), TEXT, sent);
    }
}

#[test]
fn an_empty_buffer_is_written(rt: HostRuntime) {
    let mut sink = ScriptedSink::new(rt.alloc(), &[WriteStep::Stopped]);
    let mut writing = sink.put_buffer(&[]);
    let came = writing.write_on(&mut sink);
    assert_same(&rt, (came, sink.left()), (DONE, 1), "no call");
}

#[test]
fn refused_memory_sends_a_number_once(rt: HostRuntime) {
    let mut writing = Vec::new(rt.alloc()).put_varint(VarInt::from_u32(16384));
    check_refused(&rt, &mut writing, &[], &[0x80, 0x00, 0x40, 0x00]);
}

#[test]
fn refused_memory_sends_a_buffer_once(rt: HostRuntime) {
    let mut writing = Vec::new(rt.alloc()).put_buffer(TEXT);
    check_refused(&rt, &mut writing, &[], TEXT);
}

/// Asserts the conversion of a system error to a read error and a write error.
fn check_error<R: Abort>(rt: &R, kind: ErrorKind, read: IoReadError, write: IoWriteError) {
    let came = (
        kind,
        IoReadError::from(io::Error::from(kind)),
        IoWriteError::from(io::Error::from(kind)),
    );
    assert_same(rt, came, (kind, read, write), "the error");
}

/// System errors that mean that the connection is lost.
static LOST: [ErrorKind; 5] = [
    ErrorKind::NotConnected,
    ErrorKind::ConnectionAborted,
    ErrorKind::BrokenPipe,
    ErrorKind::UnexpectedEof,
    ErrorKind::Other,
];

#[test]
fn errors_of_the_system_are_stops(rt: HostRuntime) {
    let reset = ErrorKind::ConnectionReset;
    check_error(&rt, reset, IoReadError::Reset, IoWriteError::Stopped);
    for kind in &LOST {
        let lost = IoReadError::NotConnected;
        check_error(&rt, *kind, lost, IoWriteError::NotConnected);
    }
}

/// Asserts the text of an error.
pub(crate) fn check_printed<R: Abort + AllocGlobal, T: Display>(rt: &R, error: &T, text: &str) {
    let shown = error.to_string(rt.alloc()).expect(rt, "memory");
    assert_same(rt, shown.as_str(), text, "printed");
}

/// Read errors and their texts.
static PRINTED: [(IoReadError, &str); 4] = [
    (
        IoReadError::ImmediateFin,
        "read operation failed because EOF reached on first byte",
    ),
    (
        IoReadError::UnexpectedFin,
        "read operation failed because EOF reached after first byte",
    ),
    (
        IoReadError::Reset,
        "read operation failed because interrupted",
    ),
    (
        IoReadError::NotConnected,
        "read operation failed because not connected",
    ),
];

#[test]
fn stops_are_printed(rt: HostRuntime) {
    for (stop, text) in &PRINTED {
        check_printed(&rt, stop, text);
    }
    let stopped = "write operation failed because operation has been stopped";
    check_printed(&rt, &IoWriteError::Stopped, stopped);
    let lost = "write operation failed because not connected";
    check_printed(&rt, &IoWriteError::NotConnected, lost);
}
