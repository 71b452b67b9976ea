//! Writers: vectors, and writers into a slice.
use crate::same::assert_same;
use crate::texts::displays;
use std::process::Abort;
use wtp_core::bytes::{BufferWriter, BytesWriter, PutError};
use wtp_core::varint::{VarInt, VarIntBoundsExceeded};

/// A number, its shortest encoding, and the room left of nine bytes.
static ROWS: [(u64, &[u8], usize); 6] = [
    (37, &[0x25], 8),
    (15293, &[0x7b, 0xbd], 7),
    (16384, &[0x80, 0x00, 0x40, 0x00], 5),
    (494878333, &[0x9d, 0x7f, 0x3e, 0x7d], 5),
    (
        151288809941952652,
        &[0xc2, 0x19, 0x7c, 0x5e, 0xff, 0x14, 0xe8, 0x8c],
        1,
    ),
    (4611686018427387903, &[0xff; 8], 1),
];

/// Asserts that a number is written as these bytes into a slice of nine bytes.
fn check_slice<R: Abort>(rt: &R, varint: VarInt, bytes: &[u8], left: usize) {
    let mut buffer = [0; 9];
    let mut writer = BufferWriter::new(&mut buffer);
    let outcome = writer.put_varint(varint);
    let sizes = (writer.offset(), writer.capacity());
    let came = (outcome, writer.buffer_written(), sizes);
    assert_same(rt, came, (Ok(()), bytes, (bytes.len(), left)), varint);
}

/// Asserts that a number is written as these bytes into a vector.
fn check_vector<R: Abort + AllocGlobal>(rt: &R, varint: VarInt, bytes: &[u8]) {
    let mut vector = Vec::new(rt.alloc());
    let outcome = vector.put_varint(varint);
    assert_same(rt, (outcome, vector.as_slice()), (Ok(()), bytes), varint);
}

/// Asserts that a number is written as these bytes, with `left` bytes left of nine.
fn check_written<R: Abort + AllocGlobal>(rt: &R, number: u64, bytes: &[u8], left: usize) {
    match VarInt::try_from_u64(number) {
        Ok(varint) => {
            check_slice(rt, varint, bytes, left);
            check_vector(rt, varint, bytes);
        }
        Err(VarIntBoundsExceeded) => panic!(rt; "{number}: out of bounds"),
    }
}

#[test]
fn the_shortest_encoding_is_written(rt: HostRuntime) {
    for (number, bytes, left) in &ROWS {
        check_written(&rt, *number, bytes, *left);
    }
}

const TOO_LITTLE: Result<(), PutError> = Err(PutError::EndOfBuffer);

#[test]
fn too_little_room_changes_nothing(rt: HostRuntime) {
    let mut buffer = [7; 3];
    let mut writer = BufferWriter::new(&mut buffer);
    let number = writer.put_varint(VarInt::from_u32(16384));
    let bytes = writer.put_bytes(&[1, 2, 3, 4]);
    let came = (number, bytes, writer.offset());
    let wanted = (TOO_LITTLE, TOO_LITTLE, 0);
    assert_same(&rt, came, wanted, "four bytes into three");
    let two = writer.put_bytes(&[1, 2]);
    let bytes = writer.put_bytes(&[3, 4]);
    let came = (two, bytes, writer.buffer_written());
    let wanted = (Ok(()), TOO_LITTLE, [1, 2].as_slice());
    assert_same(&rt, came, wanted, "two, and two into one");
    assert_same(&rt, buffer.as_slice(), [1, 2, 7].as_slice(), "the buffer");
    let mut nothing = [];
    let mut writer = BufferWriter::new(&mut nothing);
    let number = writer.put_varint(VarInt::MIN);
    assert_same(&rt, number, TOO_LITTLE, "one into none");
}

/// Asserts that a failed write changed nothing.
fn check_refusal<R: Abort>(rt: &R, error: PutError, came: &[u8], wanted: &[u8], word: &str) {
    assert_same(rt, (error, came), (PutError::Memory, wanted), word);
}

#[test]
fn refused_memory_changes_nothing(rt: HostRuntime) {
    let mut vector = Vec::new(rt.alloc());
    let number = VarInt::from_u32(16384);
    let encoding = b"\x80\x00\x40\x00".as_slice();
    if let Err(error) = vector.put_varint(number) {
        check_refusal(&rt, error, vector.as_slice(), &[], "the number");
        vector.put_varint(number).expect(&rt, "the number");
    }
    let text = [1; 64].as_slice();
    if let Err(error) = vector.put_bytes(text) {
        check_refusal(&rt, error, vector.as_slice(), encoding, "the text");
        vector.put_bytes(text).expect(&rt, "the text");
    }
    let came = (vector.len(), vector.get(..4), vector.get(4..));
    let wanted = (68, Some(encoding), Some(text));
    assert_same(&rt, came, wanted, "both");
}

#[test]
fn put_errors_are_printed(rt: HostRuntime) {
    displays(
        &rt,
        &PutError::EndOfBuffer,
        "end of buffer has been reached",
    );
    displays(&rt, &PutError::Memory, "no memory");
}
