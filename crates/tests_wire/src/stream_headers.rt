//! Worked rows of stream headers, and the effect of failed allocations.
use crate::same::assert_same;
use crate::texts::has_text;
use std::process::Abort;
use wtp_core::bytes::{BufferReader, BufferWriter, EndOfBuffer, PutError};
use wtp_core::ids::SessionId;
use wtp_core::varint::VarInt;
use wtp_wire::stream_header::{ParseError, StreamHeader, StreamKind};

/// The result of reading a header, by its kind and session ID.
type Answer = Result<Option<(StreamKind, Option<u64>)>, ParseError>;

/// Returns the kind and session ID of a header.
fn parts(header: StreamHeader) -> (StreamKind, Option<u64>) {
    let session = match header.session_id() {
        Some(session) => Some(session.into_u64()),
        None => None,
    };
    (header.kind(), session)
}

/// Returns the result by the kind and session ID of the header.
fn by_parts(read: Result<Option<StreamHeader>, ParseError>) -> Answer {
    match read {
        Ok(Some(header)) => Ok(Some(parts(header))),
        Ok(None) => Ok(None),
        Err(fault) => Err(fault),
    }
}

/// Reads a header from the bytes.
fn answer(bytes: &[u8]) -> Answer {
    let mut reader = bytes;
    by_parts(StreamHeader::read(&mut reader))
}

/// Asserts the result of reading the bytes, both from a slice and from a buffer, and the offset
/// of the buffer's reader after it.
fn check<R: Abort>(rt: &R, bytes: &[u8], wanted: Answer, place: usize, case: &str) {
    let read = answer(bytes);
    assert_same(rt, &read, &wanted, case);
    let mut reader = BufferReader::new(bytes);
    let buffered = by_parts(StreamHeader::read_from_buffer(&mut reader));
    assert_same(rt, (&buffered, reader.offset()), (&wanted, place), case);
}

/// Returns the session ID with this number.
fn session<R: Abort>(rt: &R, number: u64) -> SessionId {
    let number = VarInt::try_from_u64(number).expect(rt, "a number");
    SessionId::try_from_varint(number).expect(rt, "a session")
}

/// Asserts that these bytes are a header with this kind and session ID.
fn check_header<R: Abort>(
    rt: &R,
    bytes: &[u8],
    kind: StreamKind,
    session: Option<u64>,
    case: &str,
) {
    check(rt, bytes, Ok(Some((kind, session))), bytes.len(), case);
}

#[test]
fn headers_are_read(rt: HostRuntime) {
    check_header(&rt, &[0x00], StreamKind::Control, None, "control");
    let longer = &[0x40, 0x00];
    check_header(&rt, longer, StreamKind::Control, None, "a longer encoding");
    check_header(&rt, &[0x02], StreamKind::QPackEncoder, None, "encoder");
    check_header(&rt, &[0x03], StreamKind::QPackDecoder, None, "decoder");
    let opening = &[0x40, 0x54, 0x04];
    check_header(&rt, opening, StreamKind::WebTransport, Some(4), "session 4");
    let exercise = StreamKind::Exercise(VarInt::from_u32(0x21));
    check_header(&rt, &[0x21], exercise, None, "exercise");
    let far = StreamKind::Exercise(VarInt::from_u32(0x21 + 0x1f * 5));
    check_header(&rt, &[0x40, 0xbc], far, None, "a further exercise type");
}

/// Bytes that are not a header, and the case.
static UNKNOWN: [(&[u8], &str); 3] = [
    (&[0x01], "push"),
    (&[0x22], "after an exercise type"),
    (&[0x80, 0x42, 0x42, 0x42], "unknown"),
];

#[test]
fn other_headers_are_refused(rt: HostRuntime) {
    for (bytes, word) in &UNKNOWN {
        check(&rt, bytes, Err(ParseError::UnknownStream), 0, word);
    }
    let fault = Err(ParseError::InvalidSessionId);
    check(&rt, &[0x40, 0x54, 0x01], fault, 0, "no session");
}

/// Bytes that end before their header does, and the case.
static FRONTS: [(&[u8], &str); 6] = [
    (&[], "nothing"),
    (&[0x80], "unknown, one byte"),
    (&[0x80, 0x42], "unknown, two bytes"),
    (&[0x80, 0x42, 0x42], "unknown, without its last byte"),
    (&[0x40], "session 0, one byte"),
    (&[0x40, 0x54], "session 0, without its number"),
];

#[test]
fn fronts_of_headers_are_none(rt: HostRuntime) {
    for (bytes, word) in &FRONTS {
        check(&rt, bytes, Ok(None), 0, word);
    }
}

/// Asserts the size and the bytes of the header, and that it is read back from them.
fn check_written<R: Abort>(rt: &R, header: StreamHeader, bytes: &[u8], case: &str) {
    let mut room = [0x55; StreamHeader::MAX_SIZE];
    let mut writer = BufferWriter::new(&mut room);
    header.write_to_buffer(&mut writer).expect(rt, "room");
    let came = (header.write_size(), writer.buffer_written());
    assert_same(rt, came, (bytes.len(), bytes), case);
    assert_same(rt, answer(bytes), Ok(Some(parts(header))), case);
}

/// A session ID, the bytes of its header, and the case.
static WRITTEN: [(u64, &[u8], &str); 3] = [
    (0, &[0x40, 0x54, 0x00], "session 0"),
    (4, &[0x40, 0x54, 0x04], "session 4"),
    (
        (1 << 62) - 4,
        &[0x40, 0x54, 0xff, 0xff, 0xff, 0xff, 0xff, 0xff, 0xff, 0xfc],
        "the last session",
    ),
];

/// Asserts the size and the bytes of the header of this session, and that it is read back from
/// them.
fn check_session<R: Abort>(rt: &R, number: u64, bytes: &[u8], case: &str) {
    let header = StreamHeader::new_webtransport(session(rt, number));
    check_written(rt, header, bytes, case);
}

#[test]
fn headers_are_written(rt: HostRuntime) {
    check_written(&rt, StreamHeader::new_control(), &[0x00], "control");
    for (number, bytes, word) in &WRITTEN {
        check_session(&rt, *number, bytes, word);
    }
}

/// One call writes a header into a buffer of two bytes completely or not at all; another writes
/// it in parts.
#[test]
fn headers_need_their_room(rt: HostRuntime) {
    let header = StreamHeader::new_webtransport(session(&rt, 4));
    let mut two = [0x55; 2];
    let mut writer = BufferWriter::new(&mut two);
    let whole = header.write_to_buffer(&mut writer);
    let wanted = (Err(EndOfBuffer), 0);
    assert_same(&rt, (whole, writer.offset()), wanted, "whole or not at all");
    let by_parts = header.write(&mut writer);
    let wanted = (Err(PutError::EndOfBuffer), [0x40, 0x54].as_slice());
    assert_same(&rt, (by_parts, writer.buffer_written()), wanted, "by parts");
}

/// Asserts that a failed allocation left nothing, or the first part of the header.
fn check_refused<R: Abort>(rt: &R, fault: PutError, out: &[u8]) {
    assert_same(rt, fault, PutError::Memory, "the refusal");
    let parts: &[u8] = if out.is_empty() { &[] } else { &[0x40, 0x54] };
    assert_same(rt, out, parts, "parts before the refusal");
}

/// Writes the header.
fn write_once(header: &StreamHeader, out: &mut Vec<u8>) -> Result<(), PutError> {
    header.write(out)
}

/// Writes the header into an empty vector. If allocation failed, asserts that complete parts were
/// written, and writes it from the start again.
fn write<R: Abort>(rt: &R, header: &StreamHeader, out: &mut Vec<u8>) -> Result<(), PutError> {
    match write_once(header, out) {
        Err(fault) => {
            check_refused(rt, fault, out.as_slice());
            out.clear();
            write_once(header, out)
        }
        Ok(()) => Ok(()),
    }
}

#[test]
fn refused_memory_leaves_whole_parts(rt: HostRuntime) {
    let header = StreamHeader::new_webtransport(session(&rt, 4));
    let mut out = Vec::new(rt.alloc());
    let outcome = write(&rt, &header, &mut out);
    let wanted = (Ok(()), [0x40, 0x54, 0x04].as_slice());
    assert_same(&rt, (outcome, out.as_slice()), wanted, "session 4");
}

/// Asserts that a number is the number of a stream kind.
fn check_kind<R: Abort>(rt: &R, number: u32) {
    let id = VarInt::from_u32(number);
    let came = match StreamKind::parse(id) {
        Some(kind) => Some(kind.id()),
        None => None,
    };
    assert_same(rt, came, Some(id), number);
}

/// Numbers of stream kinds.
static KINDS: [u32; 7] = [0x00, 0x02, 0x03, 0x54, 0x21, 0x40, 0x5f];

#[test]
fn kinds_have_their_numbers(rt: HostRuntime) {
    for number in &KINDS {
        check_kind(&rt, *number);
    }
}

/// Asserts whether a number is reserved for exercise.
fn check_exercise<R: Abort>(rt: &R, number: u32, wanted: bool) {
    let id = VarInt::from_u32(number);
    assert_same(rt, StreamKind::is_id_exercise(id), wanted, number);
}

/// Numbers, and whether they are reserved for exercise.
static EXERCISES: [(u32, bool); 5] = [
    (0x20, false),
    (0x21, true),
    (0x22, false),
    (0x40, true),
    (0x54, false),
];

#[test]
fn exercise_kinds_have_their_numbers(rt: HostRuntime) {
    for (number, wanted) in &EXERCISES {
        check_exercise(&rt, *number, *wanted);
    }
}

#[test]
fn faults_have_their_texts_past_refused_memory(rt: HostRuntime) {
    let text = "cannot parse HTTP3 stream header as ID is unknown";
    has_text(&rt, &ParseError::UnknownStream, text);
    let text = "cannot parse HTTP3 stream header as session ID is invalid";
    has_text(&rt, &ParseError::InvalidSessionId, text);
}
