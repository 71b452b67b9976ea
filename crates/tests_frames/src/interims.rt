//! Interim responses, told to a reader (RFC 9114, section 4.1).
use crate::same::assert_same;
use std::process::Abort;
use wtp_core::error::ErrorScope;
use wtp_frames::endpoint::{Endpoint, Side};
use wtp_frames::fault::Fault;
use wtp_frames::reader::{Reader, Step};

/// Frames that come, one in each call, after HEADERS that are said to be those of an interim response.
struct Row {
    case: &'static str,
    /// Whether a server reads them; otherwise a client.
    server: bool,
    /// The frame between the HEADERS and the call that says so; empty if there is none.
    between: &'static [u8],
    /// The frame after that call.
    after: &'static [u8],
    /// The code of its error; 0 if there is none.
    code: u64,
}

/// The rows: the frames that may come after an interim response, and those that are none.
static ROWS: [Row; 9] = [
    Row {
        case: "the final HEADERS",
        server: false,
        between: &[],
        after: &[0x01, 0x01, 0xd9],
        code: 0,
    },
    Row {
        case: "DATA after an interim response",
        server: false,
        between: &[],
        after: &[0x00, 0x01, 0x61],
        code: 0x105,
    },
    Row {
        case: "an empty DATA frame after one",
        server: false,
        between: &[],
        after: &[0x00, 0x00],
        code: 0x105,
    },
    Row {
        case: "SETTINGS after one",
        server: false,
        between: &[],
        after: &[0x04, 0x00],
        code: 0x105,
    },
    Row {
        case: "an unknown frame after one (9)",
        server: false,
        between: &[],
        after: &[0x21, 0x00],
        code: 0,
    },
    Row {
        case: "DATA, told after DATA",
        server: false,
        between: &[0x00, 0x01, 0x61],
        after: &[0x00, 0x01, 0x62],
        code: 0,
    },
    Row {
        case: "DATA, told after an empty DATA frame",
        server: false,
        between: &[0x00, 0x00],
        after: &[0x00, 0x01, 0x62],
        code: 0,
    },
    Row {
        case: "DATA, told after an unknown frame",
        server: false,
        between: &[0x21, 0x00],
        after: &[0x00, 0x01, 0x62],
        code: 0,
    },
    Row {
        case: "DATA of a request",
        server: true,
        between: &[],
        after: &[0x00, 0x01, 0x61],
        code: 0,
    },
];

/// Returns the code of the error that a frame is; 0 if it is none.
fn code_of(step: Step) -> u64 {
    match step {
        Step::Fault(fault) => fault.code().number().into_inner(),
        _ => 0,
    }
}

#[test]
fn frames_come_after_interim_responses(rt: HostRuntime) {
    for row in &ROWS {
        let side = if row.server {
            Side::Server
        } else {
            Side::Client
        };
        let mut reader = Reader::message(Endpoint::new(side));
        reader.next(&[0x01, 0x01, 0xd8]);
        reader.next(row.between);
        assert_same(&rt, reader.interim().is_ok(), true, row.case);
        assert_same(&rt, code_of(reader.next(row.after)), row.code, row.case);
    }
}

/// Returns the code of an error, and whether it ends the stream alone.
fn error_of(told: Result<(), Fault>) -> (u64, bool) {
    match told {
        Ok(()) => (0, false),
        Err(fault) => (
            fault.code().number().into_inner(),
            matches!(fault.scope(), ErrorScope::Stream),
        ),
    }
}

#[test]
fn at_most_64_interim_responses_come(rt: HostRuntime) {
    let mut reader = Reader::message(Endpoint::new(Side::Client));
    for turn in 1..67u32 {
        reader.next(&[0x21, 0x00, 0x01, 0x01, 0xd8]);
        let wanted = if turn == 65 {
            (0x107, true)
        } else {
            (0, false)
        };
        assert_same(&rt, error_of(reader.interim()), wanted, turn);
    }
    let consumed = match reader.next(&[0x01, 0x01, 0xd9]) {
        Step::More(n) => n,
        _ => 0,
    };
    assert_same(&rt, consumed, 3, "nothing is read after the error");
}
