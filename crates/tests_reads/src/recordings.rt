//! Streams and datagrams recorded from real stacks. The expected values come from these stacks
//! and from an independent decoder.
use crate::opened::{opened_here, opened_there};
use crate::reads::{Read, read_buffer};
use crate::same::assert_same;
use std::process::Abort;
use wtransport_proto::bytes::BufferReader;
use wtransport_proto::capsule::capsules::CloseWebTransportSession;
use wtransport_proto::capsule::{Capsule, CapsuleKind, CapsuleReading};
use wtransport_proto::datagram::Datagram;
use wtransport_proto::frame::{Frame, FrameKind};
use wtransport_proto::qpack::{FieldBuffer, FieldLines};
use wtransport_proto::settings::{Settings, SettingsIter};
use wtransport_proto::stream::ReadsFrames;
use wtransport_proto::stream_header::StreamHeader;

/// The fields of a section.
type Fields = &'static [(&'static [u8], &'static [u8])];

/// The error code and reason of a closed session.
type Close = (u64, &'static str);

/// The bytes of a stream, and what they contain.
struct Row {
    case: &'static str,
    bytes: &'static [u8],
    /// The frames by type and payload length.
    frames: &'static [(u64, usize)],
    /// The fields of the section.
    fields: Fields,
    /// The close in the data, if there is one.
    close: Option<Close>,
}

/// Returns whether the next line of a section is this field.
fn is_next(lines: &mut FieldLines<'_>, room: &mut FieldBuffer, name: &[u8], value: &[u8]) -> bool {
    match lines.next_line(room) {
        Some(Ok(line)) => line.name == name && line.value == value,
        _ => false,
    }
}

/// Asserts that a section has these fields, in this order.
fn check_fields<R: Abort + AllocGlobal>(rt: &R, section: &[u8], wanted: Fields, case: &str) {
    let mut lines = FieldLines::new(section).expect(rt, case);
    let mut room = FieldBuffer::new(rt.alloc());
    for (name, value) in wanted {
        assert_same(rt, is_next(&mut lines, &mut room, name, value), true, case);
    }
    assert_same(rt, lines.next_line(&mut room).is_none(), true, case);
}

/// Returns whether the close is the next capsule in the data. Asserts that there is no other.
fn check_close<R: Abort + AllocGlobal>(
    rt: &R,
    reading: &mut CapsuleReading,
    data: &[u8],
    wanted: Close,
    case: &str,
) -> bool {
    let mut rest = data;
    match reading.next(&mut rest).expect(rt, "a capsule") {
        Some(capsule) => {
            check_only(rt, &capsule, rest, wanted, case);
            true
        }
        None => false,
    }
}

/// Asserts that the capsule is this close, and that nothing follows it.
fn check_only<R: Abort + AllocGlobal>(
    rt: &R,
    capsule: &Capsule<'_>,
    rest: &[u8],
    wanted: Close,
    case: &str,
) {
    match capsule.kind() {
        CapsuleKind::CloseWebTransportSession => {
            let close = CloseWebTransportSession::with_capsule(rt.alloc(), capsule);
            let close = close.expect(rt, "a close");
            let came = (close.error_code().into_inner(), close.reason());
            assert_same(rt, came, wanted, case);
        }
    }
    assert_same(rt, rest.len(), 0, case);
}

/// Asserts the contents of a frame. Returns whether the close is in it.
fn check_content<R: Abort + AllocGlobal>(
    rt: &R,
    reading: &mut CapsuleReading,
    frame: &Frame<'_>,
    row: &Row,
) -> bool {
    match (frame.kind(), row.close) {
        (FrameKind::Headers, _) => {
            check_fields(rt, frame.payload(), row.fields, row.case);
            false
        }
        (FrameKind::Data, Some(close)) => {
            check_close(rt, reading, frame.payload(), close, row.case)
        }
        _ => false,
    }
}

/// Returns the type and payload length of the frame that was read.
fn type_and_length(read: &Read<'_>) -> Option<(u64, usize)> {
    match read {
        Ok(Some(frame)) => Some((frame.kind().id().into_inner(), frame.payload().len())),
        _ => None,
    }
}

/// Streams recorded from the end that opened them.
static REQUESTS: [Row; 4] = [
    Row {
        case: "Chromium 156: a session with a reserved capsule and its close",

        // recorded: chr07-0-c2s-0.bin
        bytes: b"\x01\x40\x83\x00\x00\xd7\xcf\x50\x8a\x08\x9d\x5c\x0b\x81\x70\xdc\x69\xa6\x59\x51\
        \x90\x60\x93\x8d\x3f\xe5\x87\x3d\x30\x07\xe3\xcc\x0a\xde\x65\x58\x5f\x2f\x00\xb9\x5d\
        \x87\x49\xc8\x7a\x3f\x89\xf0\x58\xd3\x60\xea\x45\x67\xb1\x3f\x2f\x0e\x41\x48\xb7\x82\
        \xc6\x9b\x07\x52\x2b\x3d\x89\x5a\x74\xa6\xb6\x56\x92\xc1\xca\x90\x0b\x01\x31\x5f\x4b\
        \x90\x9d\x29\xae\xe3\x0c\x04\x4e\xae\x05\xc0\xb8\x6e\x34\xd3\x2d\x7f\x2f\x09\xf0\x95\
        \x87\xdc\x66\xa0\x71\xd0\x55\xab\xb0\xe9\x39\x0f\x42\x3f\x8f\xfe\x49\x38\xd2\xb0\xbf\
        \x9f\xa5\x3f\x92\x4e\x34\xac\x1f\xe7\x00\x40\x44\xc4\x08\x82\x42\xd8\x39\x59\xfa\x3b\
        \x80\xb2\x65\x7e\x03\x7e\xde\x1f\x37\x08\xc2\x3b\x07\xff\x8c\x54\x61\x55\xe2\x4d\xec\
        \x63\x6a\x26\xbd\xd5\x5d\x8b\x75\xea\xe6\x48\xdc\x29\x88\x0f\xb1\x9f\x39\x43\x43\x5b\
        \x82\xcc\xf1\xd4\x15\xad\x34\x52\x74\x52\xbd\x51\xdc\xeb\xbe\xcb\x41\x00\x12\x68\x43\
        \x0f\x00\x00\x12\x34\x62\x79\x65\x2c\x20\x77\xc3\xb6\x72\x6c\x64",
        frames: &[(1, 131), (0, 68), (0, 18)],
        fields: &[
            (b":scheme", b"https"),
            (b":method", b"CONNECT"),
            (b":authority", b"127.0.0.1:4433"),
            (b":path", b"/chat?room=1&x=%C3%A9"),
            (b":protocol", b"webtransport"),
            (b"sec-webtransport-http3-draft02", b"1"),
            (b"origin", b"http://127.0.0.1:4434"),
            (b"wt-available-protocols", b"\"chat-2\", \"chat-1\""),
        ],
        close: Some((4660, "bye, wörld")),
    },
    Row {
        case: "aioquic 1.2.0: a close that three DATA frames contain",

        // recorded: pyodd-c2s-8.bin
        bytes: b"\x01\x40\x50\x00\x00\xcf\x2f\x00\xb9\x5d\x87\x49\xc8\x7a\x3f\x89\xf0\x58\xd3\x60\
        \xea\x45\x67\xb1\x3f\xd7\x50\x8c\x2f\x91\xd3\x5d\x05\x5c\x87\xa6\xe3\x4d\x32\xcf\x51\
        \x86\x63\xc2\x7f\xce\xd0\x07\x5f\x4b\x8e\x9d\x29\xad\x17\x18\x60\xbe\x47\x4d\x74\x15\
        \x72\x1e\x9f\x5f\x50\x87\xae\xc3\xc6\x56\x02\xb8\x3f\x2e\xf2\xb1\x69\xad\x3e\xbf\x00\
        \x00\x01\x68\x00\x04\x43\x07\x00\x00\x00\x05\x00\x07\x65\x6e\x64",
        frames: &[(1, 80), (0, 1), (0, 4), (0, 5)],
        fields: &[
            (b":method", b"CONNECT"),
            (b":protocol", b"webtransport"),
            (b":scheme", b"https"),
            (b":authority", b"example.com:4433"),
            (b":path", b"/wt?q=1"),
            (b"origin", b"https://example.com"),
            (b"user-agent", b"probe/1.0"),
            (b"x-empty", b""),
        ],
        close: Some((7, "end")),
    },
    Row {
        case: "aioquic 1.2.0: a reserved frame before the request",

        // recorded: pygrease-c2s-0.bin
        bytes: b"\x41\x76\x12\x47\x52\x45\x41\x53\x45\x20\x69\x73\x20\x74\x68\x65\x20\x77\x6f\x72\
        \x64\x01\x2d\x00\x00\xcf\x2f\x00\xb9\x5d\x87\x49\xc8\x7a\x3f\x89\xf0\x58\xd3\x60\xea\
        \x45\x67\xb1\x3f\xd7\x50\x8c\x2f\x91\xd3\x5d\x05\x5c\x87\xa6\xe3\x4d\x32\xcf\x51\x86\
        \x63\xc2\x7f\xce\xd0\x07",
        frames: &[(0x176, 18), (1, 45)],
        fields: &[
            (b":method", b"CONNECT"),
            (b":protocol", b"webtransport"),
            (b":scheme", b"https"),
            (b":authority", b"example.com:4433"),
            (b":path", b"/wt?q=1"),
        ],
        close: None,
    },
    Row {
        case: "nghttp3 1.8.0: a value that is not UTF-8",

        // recorded: nghttp3static-c2s-16.bin
        bytes: b"\x01\x40\x68\x00\x00\xcf\x2f\x00\xb9\x5d\x87\x49\xc8\x7a\x3f\x89\xf0\x58\xd3\x60\
        \xea\x45\x67\xb1\x3f\xd7\x50\x8c\x2f\x91\xd3\x5d\x05\x5c\x87\xa6\xe3\x4d\x32\xcf\x51\
        \x86\x63\xc2\x7f\xce\xd0\x07\x5f\x4b\x8e\x9d\x29\xad\x17\x18\x60\xbe\x47\x4d\x74\x15\
        \x72\x1e\x9f\x5f\x50\x87\xae\xc3\xc6\x56\x02\xb8\x3f\x7f\x45\x89\xba\x51\xd8\x5b\x14\
        \x41\x49\x61\x53\x2e\xf2\xb1\x69\xad\x3e\xbf\x00\x2d\xf2\xb5\x03\x49\xaa\x05\x77\xf6\
        \x72\x6c\x64",
        frames: &[(1, 104)],
        fields: &[
            (b":method", b"CONNECT"),
            (b":protocol", b"webtransport"),
            (b":scheme", b"https"),
            (b":authority", b"example.com:4433"),
            (b":path", b"/wt?q=1"),
            (b"origin", b"https://example.com"),
            (b"user-agent", b"probe/1.0"),
            (b"authorization", b"Bearer secret"),
            (b"x-empty", b""),
            (b"x-latin", b"w\xf6rld"),
        ],
        close: None,
    },
];

/// Asserts the next frame of a row and its contents. Returns whether the close is in it.
fn check_next<R: Abort + AllocGlobal, K: ReadsFrames>(
    rt: &R,
    stream: &mut K,
    reader: &mut BufferReader<'_>,
    reading: &mut CapsuleReading,
    wanted: (u64, usize),
    row: &Row,
) -> bool {
    let read = read_buffer(stream, reader);
    assert_same(rt, type_and_length(&read), Some(wanted), row.case);
    match read {
        Ok(Some(frame)) => check_content(rt, reading, &frame, row),
        _ => false,
    }
}

/// Asserts the frames of a stream, and how its data ends.
fn check_stream<R: Abort + AllocGlobal, K: ReadsFrames>(rt: &R, stream: &mut K, row: &Row) {
    let mut reading = CapsuleReading::new(rt.alloc());
    let mut reader = BufferReader::new(row.bytes);
    let mut is_closed = false;
    for wanted in row.frames {
        is_closed = check_next(rt, stream, &mut reader, &mut reading, *wanted, row);
    }
    let came = (reader.capacity(), is_closed, reading.finish().is_ok());
    assert_same(rt, came, (0, row.close.is_some(), true), row.case);
}

#[test]
fn requests_are_read(rt: HostRuntime) {
    for row in &REQUESTS {
        check_stream(&rt, &mut opened_there(), row);
    }
}

/// Streams recorded from the other end.
static RESPONSES: [Row; 2] = [
    Row {
        case: "aioquic 1.2.0: the response for a session",

        // recorded: chr07-0-s2c-0.bin
        bytes: b"\x01\x1f\x00\x00\xd9\x2f\x0d\x41\x48\xb7\x82\xc6\x9b\x07\x52\x2b\x3d\x89\x5a\x74\
        \xa6\xb6\x56\x92\xc1\xca\x9f\x85\x92\xc1\xca\x90\x0b",
        frames: &[(1, 31)],
        fields: &[
            (b":status", b"200"),
            (b"sec-webtransport-http3-draft", b"draft02"),
        ],
        close: None,
    },
    Row {
        case: "nginx 1.26.3: a response with a repeated field",

        // recorded: nginx-s2c-0.bin
        bytes: b"\x01\x40\x91\x00\x00\xd9\x5f\x4d\x89\xaa\x63\x55\xe5\x80\xae\x27\x17\x67\x56\x97\
        \xd0\x7a\xbe\x94\x13\x2a\x69\x3f\x75\x04\x01\x38\xa0\x59\xb8\xd3\x57\x1a\x7d\x4c\x5a\
        \x37\xff\x5f\x26\x87\x49\x7c\xa5\x89\xd3\x4d\x1f\x54\x02\x31\x33\x5a\x97\xd0\x7a\xbe\
        \x94\x13\x2a\x69\x3f\x75\x04\x01\x38\xa0\x59\xb8\xd3\x57\x1a\x75\x4c\x5a\x37\xff\x2b\
        \x2a\x47\x37\x8a\xfe\x5c\x8c\x0d\x34\xcb\x52\xad\x27\xf3\x2d\x1d\x09\x59\x1d\xc9\x89\
        \x9d\x98\x3f\x9b\x8d\x34\xcb\x7f\xcf\x2d\xf2\xb5\x23\xab\xd7\x82\x3d\x45\x2d\xf2\xb5\
        \x23\xab\xd7\x03\x74\x77\x6f\x2f\x02\x19\x08\x5a\xd2\xb5\x83\xaa\x62\xa3\x84\x8f\xd2\
        \x4a\x8f\x00\x0d\x3c\x70\x3e\x68\x65\x6c\x6c\x6f\x3c\x2f\x70\x3e\x0a",
        frames: &[(1, 145), (0, 13)],
        fields: &[
            (b":status", b"200"),
            (b"server", b"nginx/1.26.3"),
            (b"date", b"Mon, 23 Nov 2026 13:44:49 GMT"),
            (b"content-type", b"text/html"),
            (b"content-length", b"13"),
            (b"last-modified", b"Mon, 23 Nov 2026 13:44:47 GMT"),
            (b"etag", b"\"6b04434f-d\""),
            (b"alt-svc", b"h3=\":4435\""),
            (b"x-many", b"one"),
            (b"x-many", b"two"),
            (b"accept-ranges", b"bytes"),
        ],
        close: None,
    },
];

#[test]
fn responses_are_read(rt: HostRuntime) {
    for row in &RESPONSES {
        check_stream(&rt, &mut opened_here(), row);
    }
}

/// The sender of a control stream, its bytes, and its known and reserved settings, in ascending
/// order of their identifiers.
type ControlRow = (&'static str, &'static [u8], &'static [(u64, u64)]);

/// Recorded control streams.
static SETTINGS: [ControlRow; 3] = [
    (
        "Chromium 156",
        // recorded: chr07-0-c2s-2.bin
        b"\x00\x04\x32\x01\x80\x01\x00\x00\x06\x80\x00\x40\x00\x07\x40\x64\x33\x01\x80\xff\xd2\
        \x77\x01\xab\x60\x37\x42\x01\xc0\x00\x00\x00\xc6\x71\x70\x6a\x10\xc0\x00\x00\x18\x89\
        \xc2\x49\xb7\xc0\x00\x00\x00\xb6\x10\xa4\xb3\xc0\x00\x00\x14\x8d\x8f\xcb\xdc\x01\xcd",
        &[
            (0x1, 65536),
            (0x6, 16384),
            (0x7, 100),
            (0x33, 1),
            (0x2b603742, 1),
            (0xc671706a, 16),
            (0x1889c249b7, 3054544051),
        ],
    ),
    (
        "curl 8.14.1",
        // recorded: curl-0-c2s-2.bin
        b"\x00\x04\x0d\x06\xff\xff\xff\xff\xff\xff\xff\xff\x01\x00\x07\x00",
        &[(0x1, 0), (0x6, 4611686018427387903), (0x7, 0)],
    ),
    (
        "nginx 1.26.3",
        // recorded: nginx-s2c-3.bin
        b"\x00\x04\x06\x01\x50\x00\x07\x40\x80\x07\x01\x14",
        &[(0x1, 4096), (0x7, 128)],
    ),
];

/// Returns the next setting as numbers.
fn next_pair(left: &mut SettingsIter<'_>) -> Option<(u64, u64)> {
    let (id, value) = left.next()?;
    Some((id.id().into_inner(), value.into_inner()))
}

/// Asserts the settings in a frame.
fn check_settings<R: Abort + AllocGlobal>(
    rt: &R,
    frame: &Frame<'_>,
    wanted: &[(u64, u64)],
    sender: &str,
) {
    assert!(rt;
        frame.kind() == FrameKind::Settings,
        "{sender}: no settings"
    );
    let settings = Settings::with_frame(rt.alloc(), frame).expect(rt, sender);
    check_pairs(rt, settings.iter(), wanted, sender);
}

/// Asserts that these are exactly the settings.
fn check_pairs<R: Abort>(rt: &R, mut left: SettingsIter<'_>, wanted: &[(u64, u64)], sender: &str) {
    for pair in wanted {
        assert_same(rt, next_pair(&mut left), Some(*pair), sender);
    }
    assert_same(rt, next_pair(&mut left), None, sender);
}

/// Asserts the header and the settings of a control stream.
fn check_control<R: Abort + AllocGlobal>(rt: &R, row: &ControlRow) {
    let (sender, bytes, wanted) = *row;
    let mut reader = BufferReader::new(bytes);
    check_header(rt, &mut reader, (0, None), sender);
    let frame = Frame::read_from_buffer(&mut reader).expect(rt, sender);
    check_settings(rt, &frame.expect(rt, sender), wanted, sender);
}

#[test]
fn settings_are_read(rt: HostRuntime) {
    for row in &SETTINGS {
        check_control(&rt, row);
    }
}

/// Returns the session ID of a stream.
fn session_of(header: &StreamHeader) -> Option<u64> {
    Some(header.session_id()?.into_u64())
}

/// Returns the type and session ID of a unidirectional stream.
fn type_and_session(header: Option<StreamHeader>) -> Option<(u64, Option<u64>)> {
    let header = header?;
    Some((header.kind().id().into_inner(), session_of(&header)))
}

/// Asserts the type and session ID of a unidirectional stream.
fn check_header<R: Abort>(
    rt: &R,
    reader: &mut BufferReader<'_>,
    wanted: (u64, Option<u64>),
    case: &str,
) {
    let header = StreamHeader::read_from_buffer(reader).expect(rt, "a header");
    assert_same(rt, type_and_session(header), Some(wanted), case);
}

/// Asserts the header of a unidirectional stream, and the number of bytes after it.
fn check_opening<R: Abort>(
    rt: &R,
    bytes: &[u8],
    wanted: (u64, Option<u64>),
    left: usize,
    case: &str,
) {
    let mut reader = BufferReader::new(bytes);
    check_header(rt, &mut reader, wanted, case);
    assert_same(rt, reader.buffer_remaining().len(), left, case);
}

#[test]
fn unidirectional_streams_are_read(rt: HostRuntime) {
    let case = "Chromium 156: a stream of a session";
    // recorded: chr07-0-c2s-14.bin
    let bytes = b"\x40\x54\x00\x68\x65\x6c\x6c\x6f\x20\x6f\x6e\x65\x20\x77\x61\x79";
    check_opening(&rt, bytes, (0x54, Some(0)), 13, case);
    let case = "Chromium 156: a QPACK encoder stream";
    check_opening(&rt, b"\x02\x20", (0x02, None), 1, case);
}

/// A datagram.
struct DatagramRow {
    sender: &'static str,
    bytes: &'static [u8],
    /// The quarter stream ID.
    id: u64,
    /// The length of the payload.
    size: usize,
}

/// Recorded datagrams.
static DATAGRAMS: [DatagramRow; 2] = [
    // recorded: chr07-0-s2c-dgram0.bin
    DatagramRow {
        sender: "aioquic 1.2.0",
        bytes: b"\x00datagram from the server",
        id: 0,
        size: 24,
    },
    // recorded: chr07-0-c2s-dgram1.bin
    DatagramRow {
        sender: "Chromium 156",
        bytes: b"\x00a datagram",
        id: 0,
        size: 10,
    },
];

/// Asserts the parts of a datagram.
fn check_datagram<R: Abort>(rt: &R, row: &DatagramRow) {
    let DatagramRow {
        sender,
        bytes,
        id,
        size,
    } = *row;
    let datagram = Datagram::read(bytes).expect(rt, sender);
    let came = (datagram.qstream_id().into_u64(), datagram.payload().len());
    assert_same(rt, came, (id, size), sender);
}

#[test]
fn datagrams_are_read(rt: HostRuntime) {
    for row in &DATAGRAMS {
        check_datagram(&rt, row);
    }
}
