//! Stream headers read and written poll by poll.
use crate::polled::bytes::check_printed;
use crate::polled::readings::{
    NewReading, Reading, assert_same_of, check_answers, check_each, check_fronts, check_read,
};
use crate::polled::writings::{check_refused, check_stopped, check_written};
use crate::same::assert_same;
use std::alloc::Global;
use std::fmt::Display;
use std::process::Abort;
use wtp_core::bytes;
use wtp_core::bytes::{AsyncRead, Polled, ReadStep};
use wtp_core::ids::SessionId;
use wtp_core::varint::VarInt;
use wtp_wire::stream_header::{HeaderReading, IoReadError, ParseError, StreamHeader, StreamKind};

/// The result of a poll, by the type and session ID of the header.
type Answer = Polled<Result<(u64, Option<u64>), IoReadError>>;

/// Returns the type and session ID of a header.
fn parts(header: StreamHeader) -> (u64, Option<u64>) {
    let session = match header.session_id() {
        Some(session) => Some(session.into_u64()),
        None => None,
    };
    (header.kind().id().into_inner(), session)
}

/// Polls a reader of a header once.
fn polled<S: AsyncRead>(reading: &mut HeaderReading, source: &mut S) -> Answer {
    match reading.poll(source) {
        Polled::Ready(Ok(header)) => Polled::Ready(Ok(parts(header))),
        Polled::Ready(Err(error)) => Polled::Ready(Err(error)),
        Polled::Pending => Polled::Pending,
        Polled::Again => Polled::Again,
        Polled::NoMemory => Polled::NoMemory,
    }
}

impl Reading for HeaderReading {
    type Ready = Result<(u64, Option<u64>), IoReadError>;

    fn stopped(stop: bytes::IoReadError) -> Answer {
        Polled::Ready(Err(IoReadError::IO(stop)))
    }

    fn check<R: Abort, S: AsyncRead, N: Display + Drop>(
        &mut self,
        rt: &R,
        source: &mut S,
        wanted: &Answer,
        row: &[u8],
        case: N,
    ) {
        let came = polled(self, source);
        assert_same_of(rt, row, &came, wanted, case);
    }
}

impl NewReading for HeaderReading {
    fn new_reading(_alloc: Global) -> Self {
        StreamHeader::read_async()
    }
}

/// The header of session 0.
const SESSION: &[u8; 3] = &[0x40, 0x54, 0x00];

/// The header of session 2^62 - 4.
const LAST_SESSION: &[u8; 10] = &[0x40, 0x54, 0xff, 0xff, 0xff, 0xff, 0xff, 0xff, 0xff, 0xfc];

/// The bytes of headers, and their types and session IDs.
static HEADERS: [(&[u8], Answer); 6] = [
    (&[0x00], Polled::Ready(Ok((0x00, None)))),
    (&[0x02], Polled::Ready(Ok((0x02, None)))),
    (&[0x03], Polled::Ready(Ok((0x03, None)))),
    (&[0x21], Polled::Ready(Ok((0x21, None)))),
    (SESSION, Polled::Ready(Ok((0x54, Some(0))))),
    (
        LAST_SESSION,
        Polled::Ready(Ok((0x54, Some(4611686018427387900)))),
    ),
];

#[test]
fn headers_are_read(rt: HostRuntime) {
    for (bytes, answer) in &HEADERS {
        check_read::<_, HeaderReading>(&rt, bytes, answer);
    }
}

const UNKNOWN: Answer = Polled::Ready(Err(IoReadError::Parse(ParseError::UnknownStream)));

const NO_SESSION: Answer = Polled::Ready(Err(IoReadError::Parse(ParseError::InvalidSessionId)));

/// Invalid headers and their errors.
static FAULTS: [(&[u8], Answer); 3] = [
    (&[0x80, 0x42, 0x42, 0x42], UNKNOWN),
    (&[0x01], UNKNOWN),
    (&[0x40, 0x54, 0x01], NO_SESSION),
];

#[test]
fn faults_are_named(rt: HostRuntime) {
    for (bytes, fault) in &FAULTS {
        check_read::<_, HeaderReading>(&rt, bytes, fault);
    }
}

#[test]
fn cut_headers_end(rt: HostRuntime) {
    check_fronts::<_, HeaderReading>(&rt, &[0x80, 0x42, 0x42, 0x42]);
    check_fronts::<_, HeaderReading>(&rt, SESSION);
    check_fronts::<_, HeaderReading>(&rt, LAST_SESSION);
}

/// Interruptions before each byte.
const STOPS: [ReadStep; 6] = [
    ReadStep::Reset,
    ReadStep::Bytes(1),
    ReadStep::NotConnected,
    ReadStep::Bytes(1),
    ReadStep::NotReady,
    ReadStep::Bytes(2),
];

/// The result for the header of session 4.
const FOURTH: Answer = Polled::Ready(Ok((0x54, Some(4))));

/// The results of polling for one header with these interruptions.
const PAST_STOPS: [Answer; 4] = [
    Polled::Ready(Err(IoReadError::IO(bytes::IoReadError::Reset))),
    Polled::Ready(Err(IoReadError::IO(bytes::IoReadError::NotConnected))),
    Polled::Pending,
    FOURTH,
];

/// The header of session 4, followed by one more byte.
const FOURTH_BYTES: &[u8; 4] = &[0x40, 0x54, 0x04, 0x00];

#[test]
fn a_header_is_read_past_stops(rt: HostRuntime) {
    let mut reading = HeaderReading::new();
    let rest = check_answers(&rt, &mut reading, (FOURTH_BYTES, &STOPS), &PAST_STOPS);
    assert_same(&rt, rest, &[0x00], "and no more");
}

/// One byte, and then not ready.
const ONE_BYTE: [ReadStep; 2] = [ReadStep::Bytes(1), ReadStep::NotReady];

#[test]
fn a_header_is_read_on_over_a_second_source(rt: HostRuntime) {
    let mut reading = HeaderReading::new();
    check_answers(&rt, &mut reading, (&[0x40], &ONE_BYTE), &[Polled::Pending]);
    let mut second = [0x54, 0x04].as_slice();
    check_each(&rt, &mut reading, &mut second, &[FOURTH], &[0x54, 0x04]);
}

/// Returns the header of a stream of this session.
fn session<R: Abort>(rt: &R, number: u64) -> StreamHeader {
    let varint = VarInt::try_from_u64(number).expect(rt, "a number");
    let session = SessionId::try_from_varint(varint).expect(rt, "a session");
    StreamHeader::new_webtransport(session)
}

/// Asserts that the header is written into a vector and into a slow sink.
fn check_header_written<R: Abort + AllocGlobal>(rt: &R, header: StreamHeader, bytes: &[u8]) {
    assert_same_of(rt, bytes, &header.write_size(), &bytes.len(), "size");
    check_written(
        rt,
        &mut header.write_async(),
        &mut header.write_async(),
        bytes,
    );
}

#[test]
fn headers_are_written(rt: HostRuntime) {
    check_header_written(&rt, StreamHeader::new_control(), &[0x00]);
    check_header_written(&rt, session(&rt, 0), SESSION);
    check_header_written(&rt, session(&rt, 4611686018427387900), LAST_SESSION);
}

#[test]
fn a_stopped_header_is_written_on(rt: HostRuntime) {
    for sent in 0..=2usize {
        let mut writing = session(&rt, 0).write_async();
        check_stopped(&rt, &mut writing, SESSION, sent);
    }
}

#[test]
fn refused_memory_sends_a_header_once(rt: HostRuntime) {
    let mut writing = session(&rt, 4).write_async();
    check_refused(&rt, &mut writing, &[], &[0x40, 0x54, 0x04]);
}

#[test]
fn an_error_is_printed_as_its_cause(rt: HostRuntime) {
    let parse = IoReadError::Parse(ParseError::UnknownStream);
    let unknown = "cannot parse HTTP3 stream header as ID is unknown";
    check_printed(&rt, &parse, unknown);
    let io = IoReadError::from(bytes::IoReadError::Reset);
    check_printed(&rt, &io, "read operation failed because interrupted");
}
