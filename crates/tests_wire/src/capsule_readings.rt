//! Capsules read from data that is split anywhere, and close capsules that are written.
use crate::same::assert_same;
use std::alloc::Global;
use std::process::Abort;
use wtp_core::bytes::PutError;
use wtp_wire::capsule::capsules::CloseWebTransportSession;
use wtp_wire::capsule::{CapsuleError, CapsuleKind, CapsuleOwned, CapsuleReading};

/// How data ends.
#[derive(Clone, Copy, Debug, PartialEq, Eq)]
pub enum Ending {
    Clean,
    Cut,
    TooLong,
}

/// The result of reading a piece of data.
type Answer = Result<Option<CapsuleOwned>, CapsuleError>;

/// Reads the next capsule.
fn next_once(reading: &mut CapsuleReading, bytes: &mut &[u8]) -> Answer {
    reading.next(bytes)
}

/// Reads the next capsule, again if allocation failed.
fn next(reading: &mut CapsuleReading, bytes: &mut &[u8]) -> Answer {
    match next_once(reading, bytes) {
        Err(CapsuleError::Memory) => next_once(reading, bytes),
        answer => answer,
    }
}

/// Asserts the values of the capsules in a piece of data, which follow the first `count` ones.
/// Returns the number of capsules so far, and whether a value is too long.
fn check_piece<R: Abort>(
    rt: &R,
    reading: &mut CapsuleReading,
    piece: &[u8],
    values: &[&'static [u8]],
    count: usize,
    case: &str,
) -> (usize, bool) {
    let mut rest = piece;
    let mut count = count;
    for _ in 0..=values.len() {
        match next(reading, &mut rest) {
            Ok(Some(capsule)) => {
                assert_same(
                    rt,
                    Some(capsule.payload()),
                    values.get(count).copied(),
                    case,
                );
                count = count.saturating_add(1);
            }
            Ok(None) => break,
            Err(fault) => {
                assert_same(rt, fault, CapsuleError::TooLong, case);
                return (count, true);
            }
        }
    }
    assert_same(rt, rest, [].as_slice(), case);
    (count, false)
}

/// Asserts the values of the capsules in these pieces of data, and how the data ends.
fn check_pieces<R: Abort + AllocGlobal>(
    rt: &R,
    pieces: &[&[u8]],
    values: &[&'static [u8]],
    ending: Ending,
    case: &str,
) {
    let mut reading = CapsuleReading::new(rt.alloc());
    let mut count = 0;
    for piece in pieces {
        let (found, too_long) = check_piece(rt, &mut reading, piece, values, count, case);
        if too_long {
            assert_same(rt, (Ending::TooLong, found), (ending, values.len()), case);
            return;
        }
        count = found;
    }
    let came = (ending_of(&reading), count);
    assert_same(rt, came, (ending, values.len()), case);
}

/// Returns how data ends that leaves a reader in this state.
fn ending_of(reading: &CapsuleReading) -> Ending {
    match reading.finish() {
        Ok(()) => Ending::Clean,
        Err(_) => Ending::Cut,
    }
}

/// Data, and what is read from it.
pub struct Row {
    pub case: &'static str,
    pub data: &'static [u8],
    /// The values of the close capsules.
    pub values: &'static [&'static [u8]],
    pub ending: Ending,
}

/// Asserts a row that is split at each offset.
fn check_cuts<R: Abort + AllocGlobal>(rt: &R, row: &Row) {
    for at in 0..=row.data.len() {
        let (front, rest) = row.data.split_at(at);
        check_pieces(rt, &[front, rest], row.values, row.ending, row.case);
    }
}

/// The value of the close capsule that Chromium 156 and aioquic 1.2.0 sent.
// recorded: chr07-0-c2s-0.bin, bytes 210 to 225
const BYE: &[u8] = b"\x00\x00\x12\x34bye, w\xc3\xb6rld";

const END: &[u8] = b"\x00\x00\x00\x07end";

/// One close capsule.
const CLOSE: Row = Row {
    case: "a close",
    data: &[0x68, 0x43, 0x07, 0, 0, 0, 7, 0x65, 0x6e, 0x64],
    values: &[END],
    ending: Ending::Clean,
};

/// Worked rows. Types 0x17, 0x40 and 0x69 are reserved: 0x29 * N + 0x17 (RFC 9297, section 5.4).
pub static ROWS: [Row; 14] = [
    Row {
        case: "no data",
        data: &[],
        values: &[],
        ending: Ending::Clean,
    },
    CLOSE,
    Row {
        case: "an empty reserved capsule",
        data: &[0x17, 0x00, 0x68, 0x43, 0x07, 0, 0, 0, 7, 0x65, 0x6e, 0x64],
        values: &[END],
        ending: Ending::Clean,
    },
    Row {
        case: "two reserved capsules",
        data: &[
            0x40, 0x40, 0x03, 0x68, 0x43, 0x00, 0x40, 0x69, 0x40, 0x01, 0xff, 0x68, 0x43, 0x07, 0,
            0, 0, 7, 0x65, 0x6e, 0x64,
        ],
        values: &[END],
        ending: Ending::Clean,
    },
    Row {
        case: "longer encodings, and a datagram after it",
        data: &[
            0x80, 0x00, 0x28, 0x43, 0x40, 0x07, 0, 0, 0, 7, 0x65, 0x6e, 0x64, 0x00, 0x01, 0x61,
        ],
        values: &[END],
        ending: Ending::Clean,
    },
    Row {
        case: "three closes",
        data: &[
            0x68, 0x43, 0x07, 0, 0, 0, 7, 0x65, 0x6e, 0x64, 0x68, 0x43, 0x00, 0x68, 0x43, 0x01,
            0x05,
        ],
        values: &[END, b"", b"\x05"],
        ending: Ending::Clean,
    },
    Row {
        case: "half of a type",
        data: &[0x68],
        values: &[],
        ending: Ending::Cut,
    },
    Row {
        case: "no length",
        data: &[0x68, 0x43],
        values: &[],
        ending: Ending::Cut,
    },
    Row {
        case: "a byte is missing",
        data: &[0x68, 0x43, 0x07, 0, 0, 0, 7, 0x65, 0x6e],
        values: &[],
        ending: Ending::Cut,
    },
    Row {
        case: "a byte of an unknown one is missing",
        data: &[0x17, 0x02, 0x68],
        values: &[],
        ending: Ending::Cut,
    },
    Row {
        case: "the longest length",
        data: &[
            0x17, 0xff, 0xff, 0xff, 0xff, 0xff, 0xff, 0xff, 0xff, 0x68, 0x43, 0x00,
        ],
        values: &[],
        ending: Ending::Cut,
    },
    Row {
        case: "a length of 1029",
        data: &[0x68, 0x43, 0x00, 0x68, 0x43, 0x44, 0x05, 0x68, 0x43, 0x00],
        values: &[b""],
        ending: Ending::TooLong,
    },
    Row {
        case: "a length of 1028",
        data: &[0x68, 0x43, 0x44, 0x04, 0x68, 0x43, 0x00],
        values: &[],
        ending: Ending::Cut,
    },
    Row {
        case: "the longest length of a close",
        data: &[
            0x68, 0x43, 0xff, 0xff, 0xff, 0xff, 0xff, 0xff, 0xff, 0xff, 0x00,
        ],
        values: &[],
        ending: Ending::TooLong,
    },
];

#[test]
fn data_may_be_cut_anywhere(rt: HostRuntime) {
    for row in &ROWS {
        check_cuts(&rt, row);
    }
}

#[test]
fn a_cut_close_is_found_past_refused_memory(rt: HostRuntime) {
    check_cuts(&rt, &CLOSE);
}

/// The payloads of the DATA frames of recorded sessions, and the values of their close capsules.
pub static RECORDED: [(&[&[u8]], &[u8], &str); 5] = [
    (
        &[
            // recorded: chr07-0-c2s-0.bin, bytes 137 to 205
            b"\xc4\x08\x82\x42\xd8\x39\x59\xfa\x3b\x80\xb2\x65\x7e\x03\x7e\xde\x1f\x37\x08\xc2\x3b\
            \x07\xff\x8c\x54\x61\x55\xe2\x4d\xec\x63\x6a\x26\xbd\xd5\x5d\x8b\x75\xea\xe6\x48\xdc\
            \x29\x88\x0f\xb1\x9f\x39\x43\x43\x5b\x82\xcc\xf1\xd4\x15\xad\x34\x52\x74\x52\xbd\x51\
            \xdc\xeb\xbe\xcb\x41",
            // recorded: chr07-0-c2s-0.bin, bytes 207 to 225
            b"\x68\x43\x0f\x00\x00\x12\x34\x62\x79\x65\x2c\x20\x77\xc3\xb6\x72\x6c\x64",
        ],
        BYE,
        "Chromium 156, a reserved capsule in front",
    ),
    (
        &[
            // recorded: chrdyn-0-c2s-0.bin, bytes 14 to 66
            b"\xc6\xe1\xff\xfd\xf6\xd8\x78\x63\x2b\x7d\xf1\xbc\x7a\x62\xb9\x55\x56\x96\xe7\x3c\x20\
            \xf3\xe2\x0d\x4b\x90\x21\x78\x37\x29\xf5\xe8\x0d\x7d\x54\xe1\xb0\xcd\x47\x8f\x47\xe0\
            \xa5\xb0\x6d\x94\xc6\x74\x85\x24\x4b\xbf",
            // recorded: chrdyn-0-c2s-0.bin, bytes 68 to 86
            b"\x68\x43\x0f\x00\x00\x12\x34\x62\x79\x65\x2c\x20\x77\xc3\xb6\x72\x6c\x64",
        ],
        BYE,
        "Chromium 156, another session",
    ),
    (
        &[
            &[0x68, 0x43, 0x07],
            &[0x00, 0x00, 0x00, 0x07, 0x65, 0x6e, 0x64],
        ],
        END,
        "aioquic 1.2.0, in two frames",
    ),
    (
        &[
            &[0x68],
            &[0x43, 0x07, 0x00, 0x00],
            &[0x00, 0x07, 0x65, 0x6e, 0x64],
        ],
        END,
        "aioquic 1.2.0, in three frames",
    ),
    (
        &[
            &[0x80, 0x00, 0x78, 0xae, 0x00],
            &[0x68, 0x43, 0x07, 0x00, 0x00, 0x00, 0x07, 0x65, 0x6e, 0x64],
        ],
        END,
        "aioquic 1.2.0, a type of four bytes in front",
    ),
];

#[test]
fn recorded_closes_are_found_past_refused_memory(rt: HostRuntime) {
    for (pieces, value, case) in &RECORDED {
        check_pieces(&rt, pieces, &[*value], Ending::Clean, case);
    }
}

#[test]
fn values_have_a_limit(rt: HostRuntime) {
    let limit = CapsuleKind::CloseWebTransportSession.max_value_len();
    assert_same(&rt, limit, 1028, "the limit");
}

/// The result of creating a close.
type Made = Result<CloseWebTransportSession, CapsuleError>;

/// Creates a close with this error code and reason.
fn close_once(alloc: Global, code: u32, reason: &str) -> Made {
    CloseWebTransportSession::new(alloc, code, reason)
}

/// Creates a close, again if allocation failed.
fn close<R: AllocGlobal>(rt: &R, code: u32, reason: &str) -> Made {
    match close_once(rt.alloc(), code, reason) {
        Err(CapsuleError::Memory) => close_once(rt.alloc(), code, reason),
        made => made,
    }
}

/// Writes a close.
fn write_once(close: &CloseWebTransportSession, bytes: &mut Vec<u8>) -> Result<(), PutError> {
    close.write(bytes)
}

/// Writes a close into an empty vector, from the start again if allocation failed.
fn write(close: &CloseWebTransportSession, bytes: &mut Vec<u8>) -> Result<(), PutError> {
    match write_once(close, bytes) {
        Err(PutError::Memory) => {
            bytes.clear();
            write_once(close, bytes)
        }
        answer => answer,
    }
}

/// Asserts the bytes of the close with this error code and reason.
fn check_written<R: Abort + AllocGlobal>(rt: &R, code: u32, reason: &str, wanted: &[u8]) {
    let close = close(rt, code, reason).expect(rt, reason);
    let mut bytes = Vec::new(rt.alloc());
    let outcome = write(&close, &mut bytes);
    let came = (outcome, bytes.as_slice(), close.write_size());
    assert_same(rt, came, (Ok(()), wanted, wanted.len()), reason);
}

/// Error codes and reasons, and the bytes of their capsules.
static WRITTEN: [(u32, &str, &[u8]); 3] = [
    (0, "", &[0x68, 0x43, 0x04, 0, 0, 0, 0]),
    (7, "end", &[0x68, 0x43, 0x07, 0, 0, 0, 7, 0x65, 0x6e, 0x64]),
    (
        0xffff_fffe,
        "\u{f6}",
        &[0x68, 0x43, 0x06, 0xff, 0xff, 0xff, 0xfe, 0xc3, 0xb6],
    ),
];

#[test]
fn closes_are_written_past_refused_memory(rt: HostRuntime) {
    for (code, reason, wanted) in &WRITTEN {
        check_written(&rt, *code, reason, wanted);
    }
}

/// Returns the size of a close with this reason.
fn size_of<R: AllocGlobal>(rt: &R, reason: &[u8]) -> Result<usize, CapsuleError> {
    match close(rt, 0, str::from_utf8(reason).unwrap_or("")) {
        Ok(close) => Ok(close.write_size()),
        Err(fault) => Err(fault),
    }
}

#[test]
fn made_reasons_have_a_limit_past_refused_memory(rt: HostRuntime) {
    let letters = [0x61; 1025];
    let over = size_of(&rt, &letters);
    assert_same(&rt, over, Err(CapsuleError::TooLong), "1025 bytes");
    let size = size_of(&rt, &letters[..1024]);
    assert_same(&rt, size, Ok(1032), "1024 bytes");
}
