//! The streams of QPACK where no dynamic table is allowed (RFC 9204, sections 3.2.3, 4.3 and 4.4).
use crate::reading::{connection_of, read};
use crate::same::assert_same;
use std::process::Abort;
use wtp_connection::stream::Stream;

/// A stream of QPACK.
struct Row {
    /// What it case.
    case: &'static str,
    /// Its bytes.
    bytes: &'static [u8],
    /// The code of the error, which ends the connection; 0 if there is none.
    code: u64,
}

/// Instructions by the rule that they keep or violate.
static ROWS: [Row; 28] = [
    Row {
        case: "an encoder stream without instructions",
        bytes: &[0x02],
        code: 0,
    },
    Row {
        case: "capacity 0, as Chromium sends it (3.2.3)",
        bytes: &[0x02, 0x20],
        code: 0,
    },
    Row {
        case: "capacity 0 three times",
        bytes: &[0x02, 0x20, 0x20, 0x20],
        code: 0,
    },
    Row {
        case: "capacity 1 (4.3.1)",
        bytes: &[0x02, 0x21],
        code: 0x201,
    },
    Row {
        case: "capacity 4096, as aioquic sends it (4.3.1)",
        bytes: &[0x02, 0x3f, 0xe1, 0x1f],
        code: 0x201,
    },
    Row {
        case: "capacity 0 in the form of 31 and more",
        bytes: &[0x02, 0x3f],
        code: 0x201,
    },
    Row {
        case: "an insertion with the name of a static entry (4.3.2)",
        bytes: &[0x02, 0xc0, 0x01, 0x61],
        code: 0x201,
    },
    Row {
        case: "an insertion with the name of a dynamic entry (4.3.2)",
        bytes: &[0x02, 0x80, 0x01, 0x61],
        code: 0x201,
    },
    Row {
        case: "an insertion with a name (4.3.3)",
        bytes: &[0x02, 0x41, 0x61, 0x01, 0x62],
        code: 0x201,
    },
    Row {
        case: "a duplicate (4.3.4)",
        bytes: &[0x02, 0x00],
        code: 0x201,
    },
    Row {
        case: "a duplicate after capacity 0",
        bytes: &[0x02, 0x20, 0x00, 0x20],
        code: 0x201,
    },
    Row {
        case: "a decoder stream without instructions",
        bytes: &[0x03],
        code: 0,
    },
    Row {
        case: "a cancelled stream, as Chromium sends it (4.4.2)",
        bytes: &[0x03, 0x4c],
        code: 0,
    },
    Row {
        case: "the largest ID that the first byte has",
        bytes: &[0x03, 0x7e],
        code: 0,
    },
    Row {
        case: "an ID in two bytes",
        bytes: &[0x03, 0x7f, 0x00],
        code: 0,
    },
    Row {
        case: "an ID in three bytes, and another",
        bytes: &[0x03, 0x7f, 0x80, 0x01, 0x44],
        code: 0,
    },
    Row {
        case: "an ID that is cut",
        bytes: &[0x03, 0x44, 0x7f, 0xff],
        code: 0,
    },
    Row {
        case: "an ID with ten groups of zeros",
        bytes: &[
            0x03, 0x7f, 0x80, 0x80, 0x80, 0x80, 0x80, 0x80, 0x80, 0x80, 0x80, 0x80, 0x00,
        ],
        code: 0,
    },
    Row {
        case: "the ID 2^62 - 1",
        bytes: &[
            0x03, 0x7f, 0xc0, 0xff, 0xff, 0xff, 0xff, 0xff, 0xff, 0xff, 0x3f,
        ],
        code: 0,
    },
    Row {
        case: "the ID 2^62 (4.1.1)",
        bytes: &[
            0x03, 0x7f, 0xc1, 0xff, 0xff, 0xff, 0xff, 0xff, 0xff, 0xff, 0x3f,
        ],
        code: 0x202,
    },
    Row {
        case: "an ID above 2^62 before its last byte (4.1.1)",
        bytes: &[
            0x03, 0x7f, 0xff, 0xff, 0xff, 0xff, 0xff, 0xff, 0xff, 0xff, 0xff,
        ],
        code: 0x202,
    },
    Row {
        case: "an ID above 2^64 in its eleventh byte",
        bytes: &[
            0x03, 0x7f, 0x80, 0x80, 0x80, 0x80, 0x80, 0x80, 0x80, 0x80, 0x80, 0x01,
        ],
        code: 0x202,
    },
    Row {
        case: "an ID with a bit above 2^64 after more zeros",
        bytes: &[
            0x03, 0x7f, 0x80, 0x80, 0x80, 0x80, 0x80, 0x80, 0x80, 0x80, 0x80, 0x80, 0x80, 0x80,
            0x40,
        ],
        code: 0x202,
    },
    Row {
        case: "an acknowledged section (4.4.1)",
        bytes: &[0x03, 0x80],
        code: 0x202,
    },
    Row {
        case: "an acknowledged section, as nginx sends it (4.4.1)",
        bytes: &[0x03, 0x84, 0x88],
        code: 0x202,
    },
    Row {
        case: "an increment (4.4.3)",
        bytes: &[0x03, 0x01],
        code: 0x202,
    },
    Row {
        case: "an increment of 0 (4.4.3)",
        bytes: &[0x03, 0x00],
        code: 0x202,
    },
    Row {
        case: "an acknowledged section after a cancelled stream",
        bytes: &[0x03, 0x4c, 0x84, 0x4c],
        code: 0x202,
    },
];

/// Asserts what comes of a stream of which `size` bytes come at a time, and that it may not end.
fn check_row<R: Abort>(rt: &R, row: &Row, size: usize) {
    let mut connection = connection_of(true, true);
    let mut stream = Stream::of_peer(2);
    let came = read(&mut connection, &mut stream, row.bytes, size, false);
    assert_same(
        rt,
        (came.code, came.ends_connection, came.left),
        (row.code, row.code != 0, 0),
        row.case,
    );
    let end = read(&mut connection, &mut stream, &[], size, true);
    let end_code = if row.code == 0 { 0x104 } else { 0 };
    assert_same(rt, (end.code, end.ends), (end_code, 0), row.case);
}

#[test]
fn instructions_need_no_table(rt: HostRuntime) {
    for row in &ROWS {
        check_row(&rt, row, 1);
        check_row(&rt, row, 2);
        check_row(&rt, row, 64);
    }
}
