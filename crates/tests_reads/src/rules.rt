//! Reading frames poll by poll, by the rules of each state.
use crate::answers::{Answer, CUT, FIN};
use crate::opened::{control, of_session, opened_here, opened_there};
use crate::reads::{PollRow, check_source, check_sources};
use crate::same::assert_same;
use std::process::Abort;
use wtransport_proto::error::ErrorCode;
use wtransport_proto::stream::IoReadError;

const UNEXPECTED: Answer<'static> = Answer::Fault(IoReadError::H3(ErrorCode::FrameUnexpected));

const BAD_SESSION: Answer<'static> = Answer::Fault(IoReadError::H3(ErrorCode::Id));

const TOO_BIG: Answer<'static> = Answer::Fault(IoReadError::H3(ErrorCode::ExcessiveLoad));

/// A stream that the peer opened. A session frame may come first, but not after a frame that was
/// read.
static OPENED_THERE: [PollRow; 10] = [
    (b"\x00\x01a", &[Answer::Frame(0x00, b"a"), FIN], "data"),
    (b"\x01\x01a", &[Answer::Frame(0x01, b"a"), FIN], "headers"),
    (b"\x04\x00", &[UNEXPECTED, FIN], "settings"),
    (
        b"\x40\x41\x04",
        &[Answer::Frame(0x41, b""), FIN],
        "a session",
    ),
    (b"\x21\x01a", &[Answer::Frame(0x21, b"a"), FIN], "exercise"),
    (
        b"\x0a\x00\x40\x41\x04",
        &[Answer::Again, Answer::Frame(0x41, b""), FIN],
        "a session after an unknown frame",
    ),
    (
        b"\x40\x41\x01\x40\x41\x04",
        &[BAD_SESSION, Answer::Frame(0x41, b""), FIN],
        "a session after a number that is none",
    ),
    (
        b"\x00\x50\x01\x40\x41\x04",
        &[TOO_BIG, Answer::Frame(0x41, b""), FIN],
        "a session after a length that is too big",
    ),
    (
        b"\x00\xff\xff\xff\xff\xff\xff\xff\xff",
        &[TOO_BIG, FIN],
        "the largest length",
    ),
    (
        b"\x00\x00\x40\x41\x04",
        &[Answer::Frame(0x00, b""), CUT, FIN],
        "a session after data",
    ),
];

#[test]
fn a_stream_opened_there_keeps_its_rule(rt: HostRuntime) {
    for row in &OPENED_THERE {
        check_source(&rt, &mut opened_there(), row);
    }
}

/// A bidirectional stream that this end opened, or that already belongs to a session.
static OPENED_HERE: [PollRow; 8] = [
    (b"\x00\x01a", &[Answer::Frame(0x00, b"a"), FIN], "data"),
    (b"\x01\x01a", &[Answer::Frame(0x01, b"a"), FIN], "headers"),
    (b"\x04\x00", &[UNEXPECTED, FIN], "settings"),
    (b"\x40\x41\x04", &[UNEXPECTED, FIN], "a session"),
    (b"\x21\x01a", &[Answer::Frame(0x21, b"a"), FIN], "exercise"),
    (
        b"\x0a\x01x\x00",
        &[Answer::Again, CUT],
        "a cut frame after an unknown one",
    ),
    (b"\x40\x41\x01", &[BAD_SESSION, FIN], "no session"),
    (b"\x00\x50\x01", &[TOO_BIG, FIN], "length 4097"),
];

#[test]
fn streams_opened_here_keep_their_rule(rt: HostRuntime) {
    let rows = OPENED_HERE.as_slice();
    let mut local = opened_here();
    check_sources(&rt, &mut local, rows);
    assert_same(&rt, local.can_upgrade(), true, "reading does not count");
    check_sources(&rt, &mut of_session(&rt, rt.alloc()), rows);
}

/// A control stream that the peer opened.
static CONTROL: [PollRow; 8] = [
    (b"\x00\x01a", &[UNEXPECTED, FIN], "data"),
    (b"\x01\x01a", &[UNEXPECTED, FIN], "headers"),
    (
        b"\x04\x02\x33\x01",
        &[Answer::Frame(0x04, b"\x33\x01"), FIN],
        "settings",
    ),
    (b"\x40\x41\x04", &[UNEXPECTED, FIN], "a session"),
    (b"\x21\x01a", &[Answer::Frame(0x21, b"a"), FIN], "exercise"),
    (
        b"\x04\x00\x07\x01\x00\x04\x00",
        &[
            Answer::Frame(0x04, b""),
            Answer::Again,
            Answer::Frame(0x04, b""),
            FIN,
        ],
        "an unknown frame between settings",
    ),
    (b"\x40\x41\x01", &[BAD_SESSION, FIN], "no session"),
    (b"\x00\x50\x01", &[TOO_BIG, FIN], "length 4097"),
];

#[test]
fn a_control_stream_keeps_its_rule(rt: HostRuntime) {
    check_sources(&rt, &mut control(&rt), &CONTROL);
}
