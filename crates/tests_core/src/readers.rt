//! Readers: slices, readers of a buffer, and child readers.
use crate::same::assert_same;
use crate::texts::{debugs, displays};
use std::process::Abort;
use wtp_core::bytes::{BufferReader, BytesReader, EndOfBuffer};

/// The encoded numbers 37, 15293, 494878333 and 151288809941952652, followed by a text.
const BYTES: [u8; 27] = [
    0x25, 0x7b, 0xbd, 0x9d, 0x7f, 0x3e, 0x7d, 0xc2, 0x19, 0x7c, 0x5e, 0xff, 0x14, 0xe8, 0x8c, 87,
    101, 98, 84, 114, 97, 110, 115, 112, 111, 114, 116,
];

static NUMBERS: [u64; 4] = [37, 15293, 494878333, 151288809941952652];

/// Reads the next number.
pub fn number<'a, R: BytesReader<'a>>(reader: &mut R) -> Option<u64> {
    match reader.get_varint() {
        Some(number) => Some(number.into_inner()),
        None => None,
    }
}

/// Returns a reader over these bytes, positioned after the first.
fn after_one<'a, R: Abort>(rt: &R, bytes: &'a [u8]) -> BufferReader<'a> {
    let mut reader = BufferReader::new(bytes);
    assert_same(rt, reader.skip(1), Ok(()), "the first byte");
    reader
}

/// Asserts that the reader yields the numbers and the text, and then nothing.
fn check_all_is_read<'a, A: Abort, R: BytesReader<'a>>(rt: &A, reader: &mut R, word: &str) {
    for wanted in &NUMBERS {
        assert_same(rt, number(reader), Some(*wanted), word);
    }
    let text = reader.get_bytes(12);
    let after = (number(reader), reader.get_bytes(1));
    let wanted = (Some(b"WebTransport".as_slice()), (None, None));
    assert_same(rt, (text, after), wanted, word);
}

#[test]
fn numbers_and_text_are_read(rt: HostRuntime) {
    let mut slice = BYTES.as_slice();
    check_all_is_read(&rt, &mut slice, "a slice");
    assert_same(&rt, slice.get_bytes(0), Some([].as_slice()), "no byte");
    let mut reader = BufferReader::new(&BYTES);
    check_all_is_read(&rt, &mut reader, "a place in a slice");
    assert_same(
        &rt,
        (reader.offset(), reader.capacity()),
        (27, 0),
        "the end",
    );
}

/// Asserts that neither a number nor eight bytes can be read from too few bytes.
fn check_too_few<A: Abort>(rt: &A, front: &[u8], len: usize) {
    let mut reader = BufferReader::new(front);
    let number = number(&mut reader);
    let bytes = reader.get_bytes(8);
    let place = (reader.offset(), reader.capacity());
    assert_same(
        rt,
        (number, bytes.is_none(), place),
        (None, true, (0, len)),
        len,
    );
}

#[test]
fn fronts_are_too_few(rt: HostRuntime) {
    let whole = &BYTES[7..15];
    check_too_few(&rt, &whole[..0], 0);
    check_too_few(&rt, &whole[..1], 1);
    check_too_few(&rt, &whole[..7], 7);
}

#[test]
fn a_committed_child_moves_its_parent(rt: HostRuntime) {
    let mut reader = after_one(&rt, &[1, 2]);
    let mut child = reader.child();
    let came = (child.capacity(), child.offset(), child.buffer());
    assert_same(&rt, came, (1, 0, [2].as_slice()), "a child");
    let byte = child.get_bytes(1);
    let came = (byte, child.offset(), child.buffer_remaining());
    let wanted = (Some([2].as_slice()), 1, [].as_slice());
    assert_same(&rt, came, wanted, "a child that read all");
    child.commit();
    let came = (reader.offset(), reader.capacity());
    assert_same(&rt, came, (2, 0), "its parent");
}

#[test]
fn a_child_that_read_all_is_dropped(rt: HostRuntime) {
    let mut reader = after_one(&rt, &[1, 2]);
    {
        let mut child = reader.child();
        let byte = child.get_bytes(1);
        let wanted = (Some([2].as_slice()), 0);
        assert_same(&rt, (byte, child.capacity()), wanted, "the child");
    }
    let came = (
        reader.offset(),
        reader.capacity(),
        reader.buffer_remaining(),
    );
    assert_same(&rt, came, (1, 1, [2].as_slice()), "its parent");
}

#[test]
fn a_dropped_child_moves_nothing(rt: HostRuntime) {
    let mut reader = after_one(&rt, &[1, 2, 3]);
    {
        let mut child = reader.child();
        assert_same(&rt, child.skip(3), Err(EndOfBuffer), "the child has 2");
        assert_same(&rt, child.skip(1), Ok(()), "the child's first byte");
        assert_same(&rt, number(&mut child), Some(3), "the child's last byte");
    }
    let came = (reader.offset(), reader.buffer_remaining());
    assert_same(&rt, came, (1, [2, 3].as_slice()), "its parent");
    let outcome = reader.skip(3);
    let came = (outcome, reader.offset(), reader.buffer());
    let wanted = (Err(EndOfBuffer), 1, [1, 2, 3].as_slice());
    assert_same(&rt, came, wanted, "the parent has 2");
}

#[test]
fn a_reader_moves_to_one_ahead(rt: HostRuntime) {
    let mut reader = after_one(&rt, &[1, 2, 3]);
    let mut ahead = BufferReader::new(reader.buffer_remaining());
    assert_same(&rt, ahead.skip(1), Ok(()), "one ahead");
    reader.move_to(&ahead);
    assert_same(&rt, reader.offset(), 2, "one after the other");
}

#[test]
fn a_place_is_printed(rt: HostRuntime) {
    let mut reader = after_one(&rt, &[1, 2]);
    debugs(&rt, &reader, "BufferReader { buf: [1, 2], off: 1 }");
    displays(&rt, &EndOfBuffer, "end of buffer has been reached");
}
