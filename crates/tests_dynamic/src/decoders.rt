//! The decoder's calls, one after the other: the example of the standard, streams that wait, and
//! what is due to the encoder.
use crate::appendix::{
    AUTHORITY, CUSTOM, CUSTOM2, PATH, SECTION_B2, SECTION_B4, STREAM_B2, STREAM_B3, STREAM_B4,
    STREAM_B5,
};
use crate::streams::{Field, assert_table, section_fault, stream_fault};
use std::alloc::Global;
use std::process::Abort;
use wtp_dynamic::table::DynamicTable;
use wtp_dynamic_decoder::decoder::{Opened, QpackDecoder};
use wtp_dynamic_decoder::lines::{LineRoom, SectionLines};

/// A call and what it does.
enum Step {
    /// Bytes of the encoder stream, and the name of their fault, if they have one.
    Reads(&'static [u8], &'static str),
    /// A section of a stream, its lines, and its Required Insert Count.
    Opens(u64, &'static [u8], &'static [Field], u64),
    /// A section of a stream, and how many insertions it waits for.
    Waits(u64, &'static [u8], u64),
    /// A section of a stream, and the name of its fault.
    Refuses(u64, &'static [u8], &'static str),
    /// An acknowledgment of a section of a stream with a count, and its bytes.
    Acknowledges(u64, u64, &'static [u8]),
    /// An increment, and its bytes.
    Increments(&'static [u8]),
    /// The cancellation of a stream, and its bytes.
    Cancels(u64, &'static [u8]),
    /// The entries that are left, how many bytes of an instruction are held, and the capacity.
    Has(&'static [Field], usize, u64),
}

/// What steps show, the limits of the table and of streams that wait, and the steps.
type Row = (&'static str, u64, u64, &'static [Step]);

const AB: Field = (b"a", b"b");

const CD: Field = (b"c", b"d");

const ROOT: Field = (b":path", b"/");

/// The decoder's part of the example of RFC 9204, Appendix B.
static EXAMPLE: [Step; 20] = [
    Step::Opens(
        0,
        b"\x00\x00\x51\x0b/index.html",
        &[(b":path", b"/index.html")],
        0,
    ),
    Step::Acknowledges(0, 0, b""),
    Step::Waits(4, SECTION_B2, 2),
    Step::Reads(STREAM_B2, ""),
    Step::Has(&[AUTHORITY, PATH], 0, 220),
    Step::Opens(4, SECTION_B2, &[AUTHORITY, PATH], 2),
    Step::Acknowledges(4, 2, b"\x84"),
    Step::Increments(b""),
    Step::Reads(STREAM_B3, ""),
    Step::Increments(b"\x01"),
    Step::Has(&[AUTHORITY, PATH, CUSTOM], 0, 220),
    Step::Waits(8, SECTION_B4, 4),
    Step::Reads(STREAM_B4, ""),
    Step::Opens(8, SECTION_B4, &[AUTHORITY, ROOT, CUSTOM], 4),
    Step::Cancels(8, b"\x48"),
    Step::Has(&[AUTHORITY, PATH, CUSTOM, AUTHORITY], 0, 220),
    Step::Reads(STREAM_B5, ""),
    Step::Has(&[PATH, CUSTOM, AUTHORITY, CUSTOM2], 0, 220),
    Step::Increments(b"\x02"),
    Step::Increments(b""),
];

/// `3f e1 1f` sets the capacity 4096, and `41 61 01 62` inserts `a: b`.
static ROWS: [Row; 9] = [
    (
        "one stream may wait, with any number of sections",
        4096,
        1,
        &[
            Step::Waits(0, b"\x02\x00\x80", 1),
            Step::Waits(0, b"\x03\x00\x80", 2),
            Step::Refuses(4, b"\x02\x00\x80", "TooManyBlocked"),
            Step::Waits(0, b"\x02\x00\x80", 1),
        ],
    ),
    (
        "no stream may wait",
        4096,
        0,
        &[
            Step::Refuses(0, b"\x02\x00\x80", "TooManyBlocked"),
            Step::Reads(b"\x3f\xe1\x1f\x41a\x01b", ""),
            Step::Opens(0, b"\x02\x00\x80", &[AB], 1),
        ],
    ),
    (
        "a stream that was opened waits no longer",
        4096,
        1,
        &[
            Step::Waits(0, b"\x02\x00\x80", 1),
            Step::Reads(b"\x3f\xe1\x1f\x41a\x01b", ""),
            Step::Opens(0, b"\x02\x00\x80", &[AB], 1),
            Step::Waits(4, b"\x03\x00\x80", 2),
        ],
    ),
    (
        "a stream whose insertions came waits no longer, though it was not opened",
        4096,
        1,
        &[
            Step::Waits(0, b"\x02\x00\x80", 1),
            Step::Reads(b"\x3f\xe1\x1f\x41a\x01b", ""),
            Step::Waits(4, b"\x03\x00\x80", 2),
        ],
    ),
    (
        "a stream that was cancelled waits no longer",
        4096,
        1,
        &[
            Step::Waits(0, b"\x02\x00\x80", 1),
            Step::Cancels(0, b"\x40"),
            Step::Waits(4, b"\x02\x00\x80", 1),
        ],
    ),
    (
        "a decoder without a table has nothing to tell",
        0,
        1,
        &[
            Step::Reads(b"\x20", ""),
            Step::Opens(0, b"\x00\x00\xc1", &[ROOT], 0),
            Step::Acknowledges(0, 0, b""),
            Step::Cancels(0, b""),
            Step::Increments(b""),
        ],
    ),
    (
        "an acknowledgment tells of the insertions below its count",
        4096,
        1,
        &[
            Step::Reads(b"\x3f\xe1\x1f\x41a\x01b\x41c\x01d", ""),
            Step::Opens(63, b"\x02\x00\x80", &[AB], 1),
            Step::Acknowledges(63, 1, b"\xbf"),
            Step::Increments(b"\x01"),
            Step::Opens(127, b"\x03\x00\x80", &[CD], 2),
            Step::Acknowledges(127, 2, b"\xff\x00"),
            Step::Increments(b""),
        ],
    ),
    (
        "a cut insertion evicts only once it is whole",
        4096,
        1,
        &[
            Step::Reads(b"\x3f\x03\x41a\x01b\x41c\x01", ""),
            Step::Has(&[AB], 3, 34),
            Step::Opens(0, b"\x02\x00\x80", &[AB], 1),
            Step::Reads(b"d", ""),
            Step::Has(&[CD], 0, 34),
            Step::Refuses(0, b"", "UnexpectedEnd"),
            Step::Increments(b"\x02"),
        ],
    ),
    (
        "a fault stays, and what came before it too",
        34,
        1,
        &[
            Step::Reads(b"\x3f\x03\x41a\x01b\x3f\x04\x20", "CapacityAboveLimit"),
            Step::Reads(b"\x20", "CapacityAboveLimit"),
            Step::Reads(b"", "CapacityAboveLimit"),
            Step::Has(&[AB], 0, 34),
            Step::Opens(0, b"\x02\x00\x80", &[AB], 1),
        ],
    ),
];

/// Asserts that these are the lines of a section.
fn assert_lines<'a>(
    rt: &impl Abort,
    table: &'a DynamicTable,
    lines: SectionLines<'a>,
    mut room: LineRoom,
    wanted: &[Field],
    shows: &str,
) {
    let mut lines = lines;
    for field in wanted {
        match lines.next_line(table, &mut room) {
            Some(Ok(line)) => {
                assert!(rt; (line.name, line.value) == *field, "{shows}: a line");
            }
            _ => panic!(rt; "{shows}: a line is missing"),
        }
    }
    let more = lines.next_line(table, &mut room).is_some();
    assert!(rt; !more, "{shows}: one line more");
}

/// Opens a section, and asserts its lines and its count.
fn assert_opens(
    rt: &impl Abort,
    alloc: Global,
    decoder: &mut QpackDecoder,
    stream: u64,
    section: &[u8],
    wanted: (&[Field], u64),
    shows: &str,
) {
    let (fields, count) = wanted;
    match decoder.open(stream, section) {
        Ok(Opened::Lines(lines)) => {
            assert!(rt; lines.required() == count, "{shows}: its count");
            let room = LineRoom::new(alloc);
            assert_lines(rt, decoder.table(), lines, room, fields, shows);
        }
        Ok(Opened::Blocked(required)) => panic!(rt; "{shows}: it waits for {required}"),
        Err(fault) => panic!(rt; "{shows}: {}", section_fault(fault)),
    }
}

/// Opens a section, and asserts that it waits for so many insertions.
fn assert_waits(
    rt: &impl Abort,
    decoder: &mut QpackDecoder,
    stream: u64,
    section: &[u8],
    count: u64,
    shows: &str,
) {
    match decoder.open(stream, section) {
        Ok(Opened::Blocked(required)) => assert!(rt; required == count, "{shows}: {required}"),
        Ok(Opened::Lines(_)) => panic!(rt; "{shows}: it does not wait"),
        Err(fault) => panic!(rt; "{shows}: {}", section_fault(fault)),
    }
}

/// Opens a section, and asserts the name of its fault.
fn assert_refuses(
    rt: &impl Abort,
    decoder: &mut QpackDecoder,
    stream: u64,
    section: &[u8],
    wanted: &str,
    shows: &str,
) {
    let fault = match decoder.open(stream, section) {
        Ok(_) => "",
        Err(fault) => section_fault(fault),
    };
    assert!(rt; fault == wanted, "{shows}: {fault}");
}

/// Reads bytes of the encoder stream, and asserts the name of their fault.
fn assert_reads(
    rt: &impl Abort,
    decoder: &mut QpackDecoder,
    piece: &[u8],
    wanted: &str,
    shows: &str,
) {
    let fault = match decoder.read_encoder_stream(piece) {
        Ok(()) => "",
        Err(fault) => stream_fault(fault),
    };
    assert!(rt; fault == wanted, "{shows}: {fault}");
}

/// Appends an acknowledgment. Returns whether memory allowed it.
fn acknowledge(
    rt: &impl Abort,
    decoder: &mut QpackDecoder,
    stream: u64,
    count: u64,
    out: &mut Vec<u8>,
) -> bool {
    assert!(rt; count <= decoder.insert_count());
    decoder.acknowledge(stream, count, out).is_ok()
}

/// Asserts what a call that tells the encoder something does.
fn assert_tells(
    rt: &impl Abort,
    alloc: Global,
    decoder: &mut QpackDecoder,
    step: &Step,
    shows: &str,
) {
    let mut out = Vec::new(alloc);
    let (told, wanted) = match step {
        Step::Acknowledges(stream, count, wanted) => (
            acknowledge(rt, decoder, *stream, *count, &mut out),
            *wanted,
        ),
        Step::Increments(wanted) => (decoder.increment(&mut out).is_ok(), *wanted),
        Step::Cancels(stream, wanted) => (decoder.cancel(*stream, &mut out).is_ok(), *wanted),
        _ => return,
    };
    assert!(rt; told && out.as_slice() == wanted, "{shows}: what is told");
}

/// Asserts what a step does.
fn assert_step(
    rt: &impl Abort,
    alloc: Global,
    decoder: &mut QpackDecoder,
    step: &Step,
    shows: &str,
) {
    match step {
        Step::Reads(piece, wanted) => assert_reads(rt, decoder, piece, wanted, shows),
        Step::Opens(stream, section, wanted, count) => {
            assert_opens(
                rt,
                alloc,
                decoder,
                *stream,
                section,
                (wanted, *count),
                shows,
            )
        }
        Step::Waits(stream, section, count) => {
            assert_waits(rt, decoder, *stream, section, *count, shows)
        }
        Step::Refuses(stream, section, wanted) => {
            assert_refuses(rt, decoder, *stream, section, wanted, shows)
        }
        Step::Has(entries, held, capacity) => {
            assert_table(rt, decoder.table(), entries, shows);
            assert!(rt; decoder.held() == *held, "{shows}: what is held");
            assert!(rt;
                decoder.table().capacity() == *capacity,
                "{shows}: the capacity"
            );
        }
        _ => assert_tells(rt, alloc, decoder, step, shows),
    }
}

/// Asserts what the steps do, one after the other.
fn assert_steps(rt: &impl Abort, alloc: Global, row: &Row) {
    let (shows, limit, most, steps) = row;
    let mut decoder = QpackDecoder::new(alloc, (*limit).min(1 << 32), *most);
    for step in *steps {
        assert_step(rt, alloc, &mut decoder, step, shows);
    }
}

#[test]
fn decoder_of_the_example(rt: HostRuntime) {
    let row: Row = ("the example of the standard", 220, 1, &EXAMPLE);
    assert_steps(&rt, rt.alloc(), &row);
}

#[test]
fn decoder_calls(rt: HostRuntime) {
    for row in &ROWS {
        assert_steps(&rt, rt.alloc(), row);
    }
}
