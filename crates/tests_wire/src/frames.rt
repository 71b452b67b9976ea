//! Reading and writing complete frames.
use crate::same::assert_same;
use crate::texts::has_text;
use std::borrow::CowSlice;
use std::fmt::Display;
use std::process::Abort;
use wtp_core::bytes::{BufferReader, BufferWriter, BytesWriter, EndOfBuffer, PutError};
use wtp_core::ids::{SessionId, StreamId};
use wtp_core::varint::VarInt;
use wtp_wire::frame::{Frame, FrameKind, ParseError, frame_kind_ids};

/// Asserts that a frame kind and its constant have this number.
fn check_kind<R: Abort>(rt: &R, kind: FrameKind, constant: VarInt, number: u64) {
    let came = (kind.id(), constant.into_inner());
    assert_same(rt, came, (constant, number), number);
    assert_same(rt, FrameKind::parse(constant).as_ref(), Some(&kind), number);
}

#[test]
fn kinds_have_their_numbers(rt: HostRuntime) {
    check_kind(&rt, FrameKind::Data, frame_kind_ids::DATA, 0);
    check_kind(&rt, FrameKind::Headers, frame_kind_ids::HEADERS, 1);
    check_kind(&rt, FrameKind::Settings, frame_kind_ids::SETTINGS, 4);
    let webtransport = frame_kind_ids::WEBTRANSPORT_STREAM;
    check_kind(&rt, FrameKind::WebTransport, webtransport, 0x41);
    let id = VarInt::from_u32(0x40);
    check_kind(&rt, FrameKind::Exercise(id), id, 0x40);
}

/// Asserts that a number has no frame kind.
fn check_no_kind<R: Abort>(rt: &R, number: u32) {
    let id = VarInt::from_u32(number);
    let came = (FrameKind::parse(id), FrameKind::is_id_exercise(id));
    assert_same(rt, came, (None, false), number);
}

/// Numbers without a frame kind.
static NO_KINDS: [u32; 5] = [0x02, 0x0a, 0x20, 0x22, 0x3f];

#[test]
fn other_numbers_are_no_kind(rt: HostRuntime) {
    for number in &NO_KINDS {
        check_no_kind(&rt, *number);
    }
    let is_exercise = FrameKind::is_id_exercise(VarInt::from_u32(0x21));
    assert_same(&rt, is_exercise, true, "the least of an exercise");
}

/// Asserts the kind and payload of a new frame.
fn check_created<R: Abort>(rt: &R, frame: &Frame<'_>, kind: FrameKind, payload: &[u8]) {
    assert_same(
        rt,
        (frame.kind(), frame.payload()),
        (kind, payload),
        "a frame",
    );
}

#[test]
fn payloads_of_any_length_are_tested(rt: HostRuntime) {
    let data = Frame::try_new_data(CowSlice::Borrowed(b"abc")).expect(&rt, "data");
    check_created(&rt, &data, FrameKind::Data, b"abc");
    let headers = Frame::try_new_headers(CowSlice::Borrowed(&[0x00, 0x00, 0xd9]));
    let headers = headers.expect(&rt, "headers");
    check_created(&rt, &headers, FrameKind::Headers, &[0x00, 0x00, 0xd9]);
    let settings = Frame::try_new_settings(CowSlice::Borrowed(&[])).expect(&rt, "settings");
    check_created(&rt, &settings, FrameKind::Settings, &[]);
}

/// The result of reading bytes.
type Outcome<'a> = Result<Option<Frame<'a>>, ParseError>;

/// Reads a frame from these bytes. Returns the result and the bytes that are left.
fn from_slice<'a>(bytes: &'a [u8]) -> (Outcome<'a>, &'a [u8]) {
    let mut rest = bytes;
    let outcome = Frame::read(&mut rest);
    (outcome, rest)
}

/// Bytes, and the frame at their start.
struct ReadRow {
    case: &'static str,
    bytes: &'static [u8],
    /// The type of the frame.
    number: u64,
    payload: &'static [u8],
    /// How many bytes the frame has.
    size: usize,
}

/// Bytes that start with a frame.
static READ: [ReadRow; 6] = [
    ReadRow {
        case: "data",
        bytes: &[0x00, 0x01, 0x61],
        number: 0x00,
        payload: b"a",
        size: 3,
    },
    ReadRow {
        case: "empty headers, one byte after them",
        bytes: &[0x01, 0x00, 0x02],
        number: 0x01,
        payload: b"",
        size: 2,
    },
    ReadRow {
        case: "settings",
        bytes: &[0x04, 0x02, 0x33, 0x01],
        number: 0x04,
        payload: &[0x33, 0x01],
        size: 4,
    },
    ReadRow {
        case: "session 0",
        bytes: &[0x40, 0x41, 0x00],
        number: 0x41,
        payload: b"",
        size: 3,
    },
    ReadRow {
        case: "exercise",
        bytes: b"\x21\x07Payload",
        number: 0x21,
        payload: b"Payload",
        size: 9,
    },
    ReadRow {
        case: "the longest encodings",
        bytes: b"\xc0\0\0\0\0\0\0\0\xc0\0\0\0\0\0\0\x01a",
        number: 0x00,
        payload: b"a",
        size: 17,
    },
];

/// Returns the type and payload of a frame.
fn parts<'f>(frame: &'f Frame<'_>) -> (u64, &'f [u8]) {
    (frame.kind().id().into_inner(), frame.payload())
}

/// The result of reading bytes, by the type and payload of the frame.
type Parts<'f> = Result<Option<(u64, &'f [u8])>, &'f ParseError>;

/// Returns the result by the type and payload of the frame.
fn by_parts<'f>(outcome: &'f Outcome<'_>) -> Parts<'f> {
    match outcome {
        Ok(Some(frame)) => Ok(Some(parts(frame))),
        Ok(None) => Ok(None),
        Err(fault) => Err(fault),
    }
}

/// Asserts the result of reading these bytes with a reader, and the offset of the reader after
/// it.
fn check_reader<R: Abort, S: Display + Drop>(
    rt: &R,
    bytes: &[u8],
    wanted: Parts<'_>,
    offset: usize,
    word: S,
) {
    let mut reader = BufferReader::new(bytes);
    let outcome = Frame::read_from_buffer(&mut reader);
    let came = (by_parts(&outcome), reader.offset());
    assert_same(rt, came, (wanted, offset), word);
}

/// Asserts the result of reading these bytes as a slice, and the number of bytes read.
fn check_from_slice<R: Abort>(rt: &R, bytes: &[u8], wanted: Parts<'_>, size: usize, word: &str) {
    let (outcome, rest) = from_slice(bytes);
    let came = (by_parts(&outcome), Some(rest));
    assert_same(rt, came, (wanted, bytes.get(size..)), word);
}

#[test]
fn frames_are_read(rt: HostRuntime) {
    for row in &READ {
        let wanted = Ok(Some((row.number, row.payload)));
        check_reader(&rt, row.bytes, wanted, row.size, row.case);
        check_from_slice(&rt, row.bytes, wanted, row.size, row.case);
    }
}

/// Asserts that each proper prefix of a frame is too short for a frame, and that the reader does
/// not move.
fn check_fronts<R: Abort>(rt: &R, frame: &[u8]) {
    for len in 0..frame.len() {
        check_reader(rt, frame.get(..len).unwrap_or(&[]), Ok(None), 0, len);
    }
}

#[test]
fn too_few_bytes_are_no_frame(rt: HostRuntime) {
    check_fronts(&rt, b"\x00\x16This is a test payload");
    check_fronts(&rt, &[0x40, 0x41, 0x00]);
}

/// Bytes, and the error at their start.
struct FaultRow {
    case: &'static str,
    bytes: &'static [u8],
    fault: ParseError,
    /// How many bytes are consumed from a slice.
    size: usize,
}

/// Bytes that start with an error.
static FAULTS: [FaultRow; 5] = [
    FaultRow {
        case: "unknown",
        bytes: b"\x80\x42\x42\x42\x16This is a test payload",
        fault: ParseError::UnknownFrame,
        size: 27,
    },
    FaultRow {
        case: "unknown and empty",
        bytes: &[0x0a, 0x00, 0x00],
        fault: ParseError::UnknownFrame,
        size: 2,
    },
    FaultRow {
        case: "no session",
        bytes: &[0x40, 0x41, 0x01],
        fault: ParseError::InvalidSessionId,
        size: 3,
    },
    FaultRow {
        case: "length 4097",
        bytes: &[0x00, 0x50, 0x01],
        fault: ParseError::PayloadTooBig,
        size: 3,
    },
    FaultRow {
        case: "the largest length",
        bytes: &[0x00, 0xff, 0xff, 0xff, 0xff, 0xff, 0xff, 0xff, 0xff],
        fault: ParseError::PayloadTooBig,
        size: 9,
    },
];

/// An error leaves a reader before the frame, but moves a slice past it.
#[test]
fn faults_are_named(rt: HostRuntime) {
    for row in &FAULTS {
        let wanted = Err(&row.fault);
        check_reader(&rt, row.bytes, wanted, 0, row.case);
        check_from_slice(&rt, row.bytes, wanted, row.size, row.case);
    }
}

/// Asserts that the frame is written as these bytes into a vector, and has their size.
fn check_vector<R: Abort + AllocGlobal>(rt: &R, frame: &Frame<'_>, bytes: &[u8], word: &str) {
    let mut vector = Vec::new(rt.alloc());
    let outcome = frame.write(&mut vector);
    let came = (outcome, vector.as_slice(), frame.write_size());
    assert_same(rt, came, (Ok(()), bytes, bytes.len()), word);
}

/// Asserts that the frame is written as these bytes into a slice of exactly this size.
fn check_slice<R: Abort>(rt: &R, frame: &Frame<'_>, bytes: &[u8], word: &str) {
    let mut buffer = [0; 70];
    let room = buffer.get_mut(..bytes.len()).expect(rt, "room");
    let mut writer = BufferWriter::new(room);
    let outcome = frame.write_to_buffer(&mut writer);
    let came = (outcome, writer.buffer_written());
    assert_same(rt, came, (Ok(()), bytes), word);
}

/// Asserts that the frame is read back from these bytes, with its kind, payload and session ID,
/// and that no byte is left.
fn check_read_back<R: Abort>(rt: &R, frame: &Frame<'_>, bytes: &[u8], word: &str) {
    let (outcome, rest) = from_slice(bytes);
    assert_same(rt, rest.len(), 0, word);
    let read = outcome.expect(rt, word).expect(rt, word);
    let came = (read.kind(), read.payload(), read.session_id());
    let wanted = (frame.kind(), frame.payload(), frame.session_id());
    assert_same(rt, came, wanted, word);
}

/// Asserts that the frame is written as these bytes, and read back from them.
fn check_written<R: Abort + AllocGlobal>(rt: &R, frame: Frame<'_>, bytes: &[u8], word: &str) {
    check_vector(rt, &frame, bytes, word);
    check_slice(rt, &frame, bytes, word);
    check_read_back(rt, &frame, bytes, word);
}

/// Asserts the bytes of the frame that opens a stream of the session with this ID.
fn check_opening<R: Abort + AllocGlobal>(rt: &R, number: u32, bytes: &[u8]) {
    let stream = StreamId::new(VarInt::from_u32(number));
    let session = SessionId::try_from_session_stream(stream).expect(rt, "a session");
    check_written(rt, Frame::new_webtransport(session), bytes, "opening");
}

#[test]
fn headers_are_written(rt: HostRuntime) {
    let headers = Frame::new_headers(CowSlice::Borrowed(&[0, 0]));
    check_written(&rt, headers, &[0x01, 0x02, 0, 0], "headers");
}

#[test]
fn settings_are_written(rt: HostRuntime) {
    let settings = Frame::new_settings(CowSlice::Borrowed(&[0x33, 1]));
    check_written(&rt, settings, &[0x04, 0x02, 0x33, 1], "settings");
}

#[test]
fn an_exercise_frame_is_written(rt: HostRuntime) {
    let id = VarInt::from_u32(0x21);
    let exercise = Frame::new_exercise(id, CowSlice::Borrowed(b"Payload"));
    check_written(&rt, exercise, b"\x21\x07Payload", "exercise");
}

#[test]
fn empty_data_is_written(rt: HostRuntime) {
    let data = Frame::new_data(CowSlice::Borrowed(&[]));
    check_written(&rt, data, &[0x00, 0x00], "data");
}

#[test]
fn openings_are_written(rt: HostRuntime) {
    check_opening(&rt, 4, &[0x40, 0x41, 0x04]);
    check_opening(&rt, 0, &[0x40, 0x41, 0x00]);
}

#[test]
fn a_longer_encoding_is_written_in_the_shortest(rt: HostRuntime) {
    let bytes = b"\xc0\0\0\0\0\0\0\0\xc0\0\0\0\0\0\0\x01a";
    let (outcome, _rest) = from_slice(bytes);
    let frame = outcome.expect(&rt, "no fault").expect(&rt, "a frame");
    check_written(&rt, frame, &[0x00, 0x01, 0x61], "two of eight bytes each");
}

/// A DATA frame with a payload of 64 bytes.
const LONG: &[u8; 67] =
    b"\x00\x40\x407777777777777777777777777777777777777777777777777777777777777777";

#[test]
fn a_length_of_64_takes_two_bytes(rt: HostRuntime) {
    let payload = [b'7'; 64];
    let frame = Frame::new_data(CowSlice::Borrowed(&payload));
    check_written(&rt, frame, LONG, "64 bytes");
}

/// Asserts that a frame does not fit into this room, that the first call writes nothing, and that
/// the second writes complete parts.
fn check_room<R: Abort>(rt: &R, frame: &Frame<'_>, room: usize, written: &[u8]) {
    assert!(rt; room <= 8);
    let mut buffer = [0; 8];
    let mut writer = BufferWriter::new(&mut buffer[..room]);
    let outcome = frame.write_to_buffer(&mut writer);
    assert_same(rt, (outcome, writer.offset()), (Err(EndOfBuffer), 0), room);
    let outcome = frame.write(&mut writer);
    let wanted = (Err(PutError::EndOfBuffer), written);
    assert_same(rt, (outcome, writer.buffer_written()), wanted, room);
}

/// Each room, and the bytes of a nine-byte frame that are written into it.
#[test]
fn too_little_room_keeps_whole_parts(rt: HostRuntime) {
    let id = VarInt::from_u32(0x21);
    let frame = Frame::new_exercise(id, CowSlice::Borrowed(b"Payload"));
    check_room(&rt, &frame, 0, b"");
    check_room(&rt, &frame, 1, b"\x21");
    check_room(&rt, &frame, 2, b"\x21\x07");
    check_room(&rt, &frame, 8, b"\x21\x07");
}

/// Asserts that a failed allocation left complete parts of a DATA frame of 100 bytes.
fn check_refused<R: Abort>(rt: &R, error: PutError, written: &[u8]) {
    let parts: &[u8] = match written.len() {
        0 => &[],
        1 => &[0x00],
        _ => &[0x00, 0x40, 0x64],
    };
    assert_same(
        rt,
        (error, written),
        (PutError::Memory, parts),
        "the refusal",
    );
}

/// Writes the whole frame into the vector.
pub(crate) fn put(frame: &Frame<'_>, vector: &mut Vec<u8>) -> Result<(), PutError> {
    frame.write(vector)
}

/// Writes a DATA frame of 100 bytes into an empty vector. If allocation failed, asserts that
/// complete parts were written, and writes it from the start again.
fn put_again<R: Abort>(rt: &R, frame: &Frame<'_>, vector: &mut Vec<u8>) -> Result<(), PutError> {
    match put(frame, vector) {
        Err(error) => {
            check_refused(rt, error, vector.as_slice());
            vector.clear();
            put(frame, vector)
        }
        Ok(()) => Ok(()),
    }
}

#[test]
fn refused_memory_keeps_whole_parts(rt: HostRuntime) {
    let payload = [9; 100];
    let frame = Frame::new_data(CowSlice::Borrowed(&payload));
    let mut vector = Vec::new(rt.alloc());
    put_again(&rt, &frame, &mut vector).expect(&rt, "the whole frame");
    assert_same(&rt, vector.len(), 103, "the whole frame");
}

#[test]
fn parse_errors_are_printed(rt: HostRuntime) {
    let unknown = "cannot parse HTTP3 frame as ID is unknown";
    has_text(&rt, &ParseError::UnknownFrame, unknown);
    let invalid = "cannot parse HTTP3 frame as session ID is invalid";
    has_text(&rt, &ParseError::InvalidSessionId, invalid);
    let too_big = "cannot parse HTTP3 frame as payload limit is reached";
    has_text(&rt, &ParseError::PayloadTooBig, too_big);
}
