//! The program, with readers and writers of the tests.
use crate::devices::{Held, Input, Output};
use crate::rows::{REQUEST, REQUEST_LISTING};
use crate::same::assert_same;
use std::alloc::{AllocError, Global};
use std::process::Abort;
use wt_listings::run_program;

/// The exit status and the output of a run of the program.
#[derive(Drop)]
struct Ran {
    status: u8,
    output: Vec<u8>,
    errors: Vec<u8>,
}

/// Returns each argument as a string.
fn texts(alloc: Global, words: &[&str]) -> Result<Vec<String>, AllocError> {
    let mut texts = Vec::new(alloc);
    for word in words {
        texts.push(String::from_str(alloc, word)?)?;
    }
    Ok(texts)
}

/// Runs the program once, with this much room for its output and for its errors.
fn run(alloc: Global, words: &[String], input: &mut Input<'_>, rooms: (usize, usize)) -> Ran {
    let (room, error_room) = rooms;
    let mut output = Output::new(alloc, room);
    let mut errors = Output::new(alloc, error_room);
    let status = run_program(alloc, words, input, &mut output, &mut errors);
    Ran {
        status,
        output: output.bytes,
        errors: errors.bytes,
    }
}

/// Asserts the exit status, the output and the errors of a run with these arguments.
fn check<R: Abort + AllocGlobal>(
    rt: &R,
    words: &[&str],
    input: &mut Input<'_>,
    rooms: (usize, usize),
    wanted: (u8, &str, &str),
) {
    let texts = texts(rt.alloc(), words).expect(rt, "memory");
    let ran = run(rt.alloc(), texts.as_slice(), input, rooms);
    let came = (
        words,
        rooms,
        ran.status,
        ran.output.as_slice(),
        ran.errors.as_slice(),
    );
    let (status, output, errors) = wanted;
    let wanted = (words, rooms, status, output.as_bytes(), errors.as_bytes());
    assert_same(rt, came, wanted, "words, rooms, status, output, errors");
}

const INPUT: [u8; 6] = [0x40, 0x41, 0x04, 0x00, 0x01, 0x61];

const LISTING: &str = "WEBTRANSPORT 4\nDATA 1\nEND 0\n";

const FAULT: &str = "FAULT FrameUnexpectedError 261\n";

const CUT: &str = "FAULT FrameError 262\n";

/// The arguments of a command, and its listing.
struct Named {
    words: &'static [&'static str],
    input: &'static [u8],
    status: u8,
    text: &'static str,
}

/// All commands.
static NAMED: [Named; 17] = [
    Named {
        words: &[],
        input: &INPUT,
        status: 0,
        text: LISTING,
    },
    Named {
        words: &["buffer"],
        input: &INPUT,
        status: 0,
        text: LISTING,
    },
    Named {
        words: &["buffer", "bi-remote"],
        input: &INPUT,
        status: 0,
        text: LISTING,
    },
    Named {
        words: &["buffer", "bi-local"],
        input: &INPUT,
        status: 2,
        text: FAULT,
    },
    Named {
        words: &["buffer", "bi-local"],
        input: b"\x00\x01a",
        status: 0,
        text: "DATA 1\nEND 0\n",
    },
    Named {
        words: &["buffer", "control"],
        input: &INPUT,
        status: 2,
        text: FAULT,
    },
    Named {
        words: &["buffer", "control"],
        input: b"\x00\x01a",
        status: 2,
        text: FAULT,
    },
    Named {
        words: &["buffer", "control"],
        input: b"\x04\x00",
        status: 0,
        text: "SETTINGS 0\nEND 0\n",
    },
    Named {
        words: &["stepped", "1"],
        input: &INPUT,
        status: 0,
        text: LISTING,
    },
    Named {
        words: &["stepped", "1048576"],
        input: &INPUT,
        status: 0,
        text: LISTING,
    },
    Named {
        words: &["stepped", "0003"],
        input: &INPUT,
        status: 0,
        text: LISTING,
    },
    Named {
        words: &["stepped", "1"],
        input: b"\x00\x05a",
        status: 2,
        text: CUT,
    },
    Named {
        words: &["stepped", "01048576"],
        input: b"\x0a\x05a",
        status: 2,
        text: CUT,
    },
    Named {
        words: &["stepped", "0000000000000000000000002"],
        input: b"",
        status: 0,
        text: "END 0\n",
    },
    Named {
        words: &["request"],
        input: &REQUEST,
        status: 0,
        text: REQUEST_LISTING,
    },
    Named {
        words: &["request"],
        input: b"\x00\x05a",
        status: 0,
        text: "END 3\n",
    },
    Named {
        words: &["request"],
        input: &INPUT,
        status: 2,
        text: FAULT,
    },
];

/// Asserts the exit status and the listing of a run with these arguments, whose input has one
/// byte per call.
fn check_listing<R: Abort + AllocGlobal>(
    rt: &R,
    words: &[&str],
    bytes: &[u8],
    status: u8,
    text: &str,
) {
    let mut input = Input {
        bytes,
        step: 1,
        fails: false,
    };
    check(rt, words, &mut input, (200, 100), (status, text, ""));
}

#[test]
fn the_words_choose_the_listing(rt: HostRuntime) {
    for row in &NAMED {
        check_listing(&rt, row.words, row.input, row.status, row.text);
    }
}

/// Arguments that do not name a command.
static OTHERS: [&[&str]; 21] = [
    &["buffer", "bi-remote", "x"],
    &["buffer", "bi-local", ""],
    &["buffer", "bi-local "],
    &["buffer", "uni"],
    &["buffer", "request"],
    &["control"],
    &["bi-local", "buffer"],
    &["request", ""],
    &["request", "bi-remote"],
    &["Request"],
    &[""],
    &["stepped"],
    &["stepped", ""],
    &["stepped", "0"],
    &["stepped", "000"],
    &["stepped", "1048577"],
    &["stepped", "18446744073709551617"],
    &["stepped", "+1"],
    &["stepped", "-1"],
    &["stepped", "1 "],
    &["stepped", "1", "1"],
];

/// Asserts that a run with these arguments reads nothing and lists nothing.
fn check_usage<R: Abort + AllocGlobal>(rt: &R, words: &[&str]) {
    let mut input = Input {
        bytes: &INPUT,
        step: 1,
        fails: false,
    };
    let wanted = (1, "", "wt_frames: usage\n");
    check(rt, words, &mut input, (100, 100), wanted);
    assert_same(rt, input.bytes.len(), 6, "nothing was read");
}

#[test]
fn other_words_are_refused(rt: HostRuntime) {
    for words in &OTHERS {
        check_usage(&rt, words);
    }
}

#[test]
fn a_fault_of_the_stream_is_listed(rt: HostRuntime) {
    let mut input = Input {
        bytes: &[0x40, 0x41, 0x01],
        step: 2,
        fails: false,
    };
    let wanted = (2, "FAULT IdError 264\n", "");
    check(&rt, &[], &mut input, (100, 100), wanted);
}

#[test]
fn a_failing_read_ends_the_run(rt: HostRuntime) {
    let mut input = Input {
        bytes: &INPUT,
        step: 4,
        fails: true,
    };
    let wanted = (3, "", "wt_frames: read fault\n");
    check(&rt, &[], &mut input, (100, 100), wanted);
}

/// Asserts the exit status, and what a run passes on to an output that is flushed or fails to be.
fn check_flush<R: Abort + AllocGlobal>(rt: &R, fails: bool, status: u8, text: &str) {
    let mut input = Input {
        bytes: &INPUT,
        step: 2,
        fails: false,
    };
    let mut output = Held {
        waiting: Vec::new(rt.alloc()),
        passed: Vec::new(rt.alloc()),
        fails,
    };
    let mut errors = Output::new(rt.alloc(), 100);
    let came = run_program(rt.alloc(), &[], &mut input, &mut output, &mut errors);
    assert_same(
        rt,
        (came, output.passed.as_slice()),
        (status, text.as_bytes()),
        "a run whose output is flushed",
    );
}

#[test]
fn the_listing_is_flushed(rt: HostRuntime) {
    check_flush(&rt, false, 0, LISTING);
    check_flush(&rt, true, 3, "");
}

/// The room of an output that is too small, and the bytes that it accepts.
static ROOMS: [(usize, &str); 3] = [(0, ""), (5, "WEBTR"), (27, "WEBTRANSPORT 4\nDATA 1\nEND 0")];

/// Asserts that a run fails if its output has only this room, and that it wrote this text.
fn check_cut<R: Abort + AllocGlobal>(rt: &R, room: usize, text: &str) {
    let mut input = Input {
        bytes: &INPUT,
        step: 100,
        fails: false,
    };
    let wanted = (3, text, "wt_frames: write fault\n");
    check(rt, &["buffer"], &mut input, (room, 100), wanted);
}

#[test]
fn a_failing_write_ends_the_run(rt: HostRuntime) {
    for (room, text) in &ROOMS {
        check_cut(&rt, *room, text);
    }
}

#[test]
fn a_fault_of_the_error_output_is_ignored(rt: HostRuntime) {
    let mut input = Input {
        bytes: &INPUT,
        step: 100,
        fails: false,
    };
    check(&rt, &["x"], &mut input, (100, 3), (1, "", "wt_"));
}

/// Asserts the result of a run over this many bytes of unknown frames, each of four bytes.
fn check_long<R: Abort + AllocGlobal>(rt: &R, size: usize, wanted: (u8, &str, &str)) {
    let bytes = vec![in rt.alloc(); 2; size].expect(rt, "memory");
    let mut input = Input {
        bytes: bytes.as_slice(),
        step: 4096,
        fails: false,
    };
    check(rt, &[], &mut input, (100, 100), wanted);
}

#[test]
fn long_input_is_refused(rt: HostRuntime) {
    // There is no frame of a known type, so all bytes are left.
    check_long(&rt, 1048576, (0, "END 1048576\n", ""));
    check_long(&rt, 1048577, (3, "", "wt_frames: input too long\n"));
}

/// Runs the program once, with room for all that it writes.
fn run_once(alloc: Global, words: &[String], bytes: &[u8]) -> Ran {
    let mut input = Input {
        bytes,
        step: 100,
        fails: false,
    };
    run(alloc, words, &mut input, (200, 100))
}

/// Asserts the result of a run in which allocation may have failed.
fn check_status<R: Abort>(rt: &R, ran: &Ran, text: &str) {
    if ran.status == 4 {
        let no_memory = b"wt_frames: no memory\n".as_slice();
        let came = (ran.errors.as_slice(), ran.output.is_empty());
        assert_same(rt, came, (no_memory, true), text);
    }
}

/// Returns each argument as a string, again if allocation failed.
fn texts_again(alloc: Global, words: &[&str]) -> Result<Vec<String>, AllocError> {
    match texts(alloc, words) {
        Ok(words) => Ok(words),
        Err(_) => texts(alloc, words),
    }
}

/// Asserts that a run in which allocation fails returns status 4 and lists nothing, or status 3
/// if the allocation of the test's own output failed, and that another run lists everything.
fn check_refused<R: Abort + AllocGlobal>(rt: &R, words: &[&str], bytes: &[u8], text: &str) {
    let words = texts_again(rt.alloc(), words).expect(rt, "memory");
    let mut ran = run_once(rt.alloc(), words.as_slice(), bytes);
    check_status(rt, &ran, text);
    if ran.status >= 3 {
        ran = run_once(rt.alloc(), words.as_slice(), bytes);
    }
    assert_same(
        rt,
        (ran.status, ran.output.as_slice()),
        (0, text.as_bytes()),
        text,
    );
}

#[test]
fn refused_memory_has_its_status(rt: HostRuntime) {
    check_refused(&rt, &[], &INPUT, LISTING);
}

#[test]
fn refused_memory_has_its_status_on_a_stream_opened_here(rt: HostRuntime) {
    check_refused(
        &rt,
        &["buffer", "bi-local"],
        b"\x00\x01a",
        "DATA 1\nEND 0\n",
    );
}

#[test]
fn refused_memory_has_its_status_on_a_control_stream(rt: HostRuntime) {
    check_refused(
        &rt,
        &["buffer", "control"],
        b"\x04\x00",
        "SETTINGS 0\nEND 0\n",
    );
}

#[test]
fn refused_memory_has_its_status_poll_by_poll(rt: HostRuntime) {
    check_refused(&rt, &["stepped", "1"], &INPUT, LISTING);
}

#[test]
fn refused_memory_has_its_status_on_a_request(rt: HostRuntime) {
    check_refused(&rt, &["request"], &REQUEST, REQUEST_LISTING);
}
