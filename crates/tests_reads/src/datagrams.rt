//! Datagrams.
use crate::same::assert_same;
use std::process::Abort;
use wtransport_proto::bytes::EndOfBuffer;
use wtransport_proto::datagram::Datagram;
use wtransport_proto::error::ErrorCode;
use wtransport_proto::ids::QStreamId;

/// Asserts the parts and the sizes of a datagram with the largest quarter stream ID.
fn check_parts<R: Abort>(rt: &R, datagram: &Datagram<'_>, payload: &[u8], size: usize) {
    let number = datagram.qstream_id();
    let came = (number, datagram.payload());
    assert_same(rt, came, (QStreamId::MAX, payload), size);
    let header = Datagram::header_size(number);
    let came = (header, datagram.payload().len(), datagram.write_size());
    assert_same(rt, came, (8, payload.len(), size), size);
}

/// Asserts the result of writing a datagram, and the bytes then in the buffer.
fn check_write<R: Abort>(
    rt: &R,
    datagram: &Datagram<'_>,
    buffer: &mut [u8],
    wanted: (Result<usize, EndOfBuffer>, &[u8]),
    word: &str,
) {
    let outcome = datagram.write(buffer);
    assert_same(rt, (outcome, &*buffer), wanted, word);
}

/// The largest quarter stream ID and the payload `x`.
const SHORT: [u8; 9] = [0xcf, 0xff, 0xff, 0xff, 0xff, 0xff, 0xff, 0xff, 0x78];

#[test]
fn datagrams_are_read_and_written(rt: HostRuntime) {
    let datagram = Datagram::read(&SHORT).expect(&rt, "a datagram");
    check_parts(&rt, &datagram, b"x", 9);
    let written = [0xcf, 0xff, 0xff, 0xff, 0xff, 0xff, 0xff, 0xff, 0x78, 7, 7];
    let wanted = (Ok(9), written.as_slice());
    check_write(&rt, &datagram, &mut [7; 11], wanted, "two bytes are left");
}

const LONG: &[u8; 25] = b"This is a testing payload";

#[test]
fn a_long_payload_is_read_back(rt: HostRuntime) {
    let datagram = Datagram::new(QStreamId::MAX, LONG);
    check_parts(&rt, &datagram, LONG, 33);
    let mut buffer = [0; 75];
    assert_same(&rt, datagram.write(&mut buffer), Ok(33), "what is written");
    let read = Datagram::read(buffer.get(..33).unwrap_or(&[])).expect(&rt, "a datagram");
    check_parts(&rt, &read, LONG, 33);
}

#[test]
fn one_byte_too_little_room_leaves_the_buffer(rt: HostRuntime) {
    let long = Datagram::new(QStreamId::MAX, LONG);
    let wanted = (Err(EndOfBuffer), [7; 32].as_slice());
    check_write(&rt, &long, &mut [7; 32], wanted, "32 bytes for 33");
    let short = Datagram::new(QStreamId::MAX, b"x");
    let wanted = (Err(EndOfBuffer), [7; 8].as_slice());
    check_write(&rt, &short, &mut [7; 8], wanted, "8 bytes for 9");
}

/// Bytes that are not a datagram, and the case.
static FAULTS: [(&[u8], &str); 3] = [
    (&[], "nothing"),
    (&[0xcf], "a cut number"),
    (&[0xd0, 0, 0, 0, 0, 0, 0, 0], "a number of 2^60"),
];

/// Returns the error for bytes that are not a datagram.
fn fault(bytes: &[u8]) -> Option<ErrorCode> {
    match Datagram::read(bytes) {
        Ok(_) => None,
        Err(code) => Some(code),
    }
}

#[test]
fn faults_are_answered(rt: HostRuntime) {
    for (bytes, word) in &FAULTS {
        assert_same(&rt, fault(bytes), Some(ErrorCode::Datagram), word);
    }
}
