//! The first two numbers of a frame, a capsule and a setting.
use crate::same::assert_same;
use std::process::Abort;
use wtp_wire::head::{first_pair, missing_bytes, pair_size};

/// The start of a frame, a capsule or a setting; its first two numbers and their length, or
/// `None` if they are incomplete; the least length of two numbers that start with these bytes
/// (RFC 9000, section 16); and the case.
struct Row {
    case: &'static str,
    bytes: &'static [u8],
    pair: Option<(u64, u64, usize)>,
    size: usize,
}

static ROWS: [Row; 8] = [
    Row {
        case: "no byte",
        bytes: &[],
        pair: None,
        size: 2,
    },
    Row {
        case: "the first number alone",
        bytes: &[0x00],
        pair: None,
        size: 2,
    },
    Row {
        case: "one byte of two, and one of the second number at least",
        bytes: &[0x40],
        pair: None,
        size: 3,
    },
    Row {
        case: "the first number, and one byte of eight",
        bytes: &[0x40, 0x41, 0xc0],
        pair: None,
        size: 10,
    },
    Row {
        case: "a DATA frame of three bytes, one of which is there",
        bytes: &[0x00, 0x03, 0xff],
        pair: Some((0, 3, 2)),
        size: 2,
    },
    Row {
        case: "the WebTransport type and a session",
        bytes: &[0x40, 0x41, 0x04],
        pair: Some((0x41, 4, 3)),
        size: 3,
    },
    Row {
        case: "the numbers 494878333 and 151288809941952652 of the RFC",
        bytes: &[
            0x9d, 0x7f, 0x3e, 0x7d, 0xc2, 0x19, 0x7c, 0x5e, 0xff, 0x14, 0xe8, 0x8c,
        ],
        pair: Some((494_878_333, 151_288_809_941_952_652, 12)),
        size: 12,
    },
    Row {
        case: "a length that is not in its shortest encoding",
        bytes: &[0x68, 0x43, 0x80, 0x00, 0x00, 0x04, 0x00],
        pair: Some((0x2843, 4, 6)),
        size: 6,
    },
];

/// Asserts the two numbers of a row, and the number of missing bytes.
fn check_row<R: Abort>(rt: &R, row: &Row) {
    let pair = match first_pair(row.bytes) {
        Some(pair) => Some((pair.first.into_inner(), pair.second.into_inner(), pair.size)),
        None => None,
    };
    assert_same(rt, pair, row.pair, row.case);
    assert_same(rt, pair_size(row.bytes), row.size, row.case);
    let missing = row.size.saturating_sub(row.bytes.len());
    assert_same(rt, missing_bytes(row.bytes), missing, row.case);
}

#[test]
fn two_numbers_are_read(rt: HostRuntime) {
    for row in &ROWS {
        check_row(&rt, row);
    }
}
