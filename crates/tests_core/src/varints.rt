//! Variable-length integers, by the standard's examples (RFC 9000, appendix A.1) and bounds.
use crate::readers::number;
use crate::same::assert_same;
use crate::texts::{debugs, displays};
use std::process::Abort;
use wtp_core::ids::StreamId;
use wtp_core::varint::{VarInt, VarIntBoundsExceeded};

const LARGEST: u64 = 4_611_686_018_427_387_903;

/// Bytes, and what is read from them.
struct Encoding {
    case: &'static str,
    bytes: &'static [u8],
    wanted: Option<u64>,
    /// How many bytes are left.
    left: usize,
}

/// The standard's examples, and truncated encodings.
static ENCODINGS: [Encoding; 9] = [
    Encoding {
        case: "one byte",
        bytes: &[0x25],
        wanted: Some(37),
        left: 0,
    },
    Encoding {
        case: "two bytes for a small number",
        bytes: &[0x40, 0x25],
        wanted: Some(37),
        left: 0,
    },
    Encoding {
        case: "two bytes, one after them",
        bytes: &[0x7b, 0xbd, 0x01],
        wanted: Some(15293),
        left: 1,
    },
    Encoding {
        case: "four bytes",
        bytes: &[0x9d, 0x7f, 0x3e, 0x7d],
        wanted: Some(494878333),
        left: 0,
    },
    Encoding {
        case: "eight bytes",
        bytes: &[0xc2, 0x19, 0x7c, 0x5e, 0xff, 0x14, 0xe8, 0x8c],
        wanted: Some(151288809941952652),
        left: 0,
    },
    Encoding {
        case: "nothing",
        bytes: &[],
        wanted: None,
        left: 0,
    },
    Encoding {
        case: "a cut one of two",
        bytes: &[0x40],
        wanted: None,
        left: 1,
    },
    Encoding {
        case: "a cut one of four",
        bytes: &[0x9d, 0x7f, 0x3e],
        wanted: None,
        left: 3,
    },
    Encoding {
        case: "a cut one of eight",
        bytes: &[0xc2, 0x19, 0x7c, 0x5e, 0xff, 0x14, 0xe8],
        wanted: None,
        left: 7,
    },
];

/// Asserts the number read from an encoding, and the number of bytes left.
fn check_encoding<R: Abort>(rt: &R, row: &Encoding) {
    let Encoding {
        case,
        bytes,
        wanted,
        left,
    } = *row;
    let mut reader = bytes;
    let came = number(&mut reader);
    assert_same(rt, (came, reader.len()), (wanted, left), case);
}

#[test]
fn encodings_are_read(rt: HostRuntime) {
    for row in &ENCODINGS {
        check_encoding(&rt, row);
    }
}

/// A number, and the length of its shortest encoding.
static SIZES: [(u64, usize); 8] = [
    (0, 1),
    (63, 1),
    (64, 2),
    (16383, 2),
    (16384, 4),
    (1073741823, 4),
    (1073741824, 8),
    (LARGEST, 8),
];

/// Returns the length of the shortest encoding of a number, if it has one.
fn size_of(number: u64) -> Option<usize> {
    match VarInt::try_from_u64(number) {
        Ok(varint) => Some(varint.size()),
        Err(VarIntBoundsExceeded) => None,
    }
}

/// A first byte, and the length of its encoding.
static FIRST_BYTES: [(u8, usize); 4] = [(0xc2, 8), (0x9d, 4), (0x7b, 2), (0x25, 1)];

#[test]
fn sizes_are_least(rt: HostRuntime) {
    for (number, size) in &SIZES {
        assert_same(&rt, size_of(*number), Some(*size), number);
    }
    for (first, size) in &FIRST_BYTES {
        assert_same(&rt, VarInt::parse_size(*first), *size, first);
    }
}

#[test]
fn numbers_are_converted(rt: HostRuntime) {
    let largest = VarInt::try_from_u64(LARGEST);
    let came = (largest, VarInt::try_from_u64(LARGEST + 1));
    let wanted = (Ok(VarInt::MAX), Err(VarIntBoundsExceeded));
    assert_same(&rt, came, wanted, "the largest number, and one more");
    let came = (VarInt::try_from(7u64), VarInt::try_from(u64::MAX));
    let wanted = (Ok(VarInt::from(7u8)), Err(VarIntBoundsExceeded));
    assert_same(&rt, came, wanted, "two of 64 bits");
    let came = (VarInt::from(300u16), VarInt::from(StreamId::MAX));
    let wanted = (VarInt::from_u32(300), VarInt::MAX);
    assert_same(&rt, came, wanted, "300 of 16 bits, and a stream");
    let came = (VarInt::from(70000u32).into_inner(), VarInt::default());
    assert_same(&rt, came, (70000, VarInt::MIN), "one of 32 bits, and none");
    let came = (VarInt::from_u64_unchecked(5).into_inner(), VarInt::MAX_SIZE);
    assert_same(
        &rt,
        came,
        (5, 8),
        "one that is not checked, and the largest size",
    );
    let came = (VarInt::MIN.into_inner(), u64::from(VarInt::MAX));
    assert_same(&rt, came, (0, LARGEST), "the bounds");
    assert_same(&rt, VarInt::MIN < VarInt::MAX, true, "their order");
}

#[test]
fn numbers_are_printed(rt: HostRuntime) {
    displays(&rt, &VarInt::MAX, "4611686018427387903");
    debugs(&rt, &VarInt::from(7u8), "7");
    displays(&rt, &VarIntBoundsExceeded, "varint value is out of bounds");
}
