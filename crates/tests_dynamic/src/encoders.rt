//! The encoder's calls, one after the other: sections that a decoder reads, entries that must stay,
//! streams that may be blocked, and the decoder stream.
use crate::streams::{Field, assert_fields, assert_table, stream_fault};
use std::alloc::Global;
use std::process::Abort;
use wtp_dynamic::error::DecoderStreamError;
use wtp_dynamic::stream::EncoderStream;
use wtp_dynamic_encoder::encoder::QpackEncoder;
use wtp_dynamic_encoder::lookup::find_static;
use wtp_dynamic_encoder::proposal::{Indexing, Policy, Proposal};

pub(crate) const AB: Field = (b"a", b"b");

pub(crate) const CD: Field = (b"c", b"d");

pub(crate) const ROOT: Field = (b":path", b"/");

// Proposals to insert a field, or not to.

const NEW_AB: Proposal<'static> = Proposal {
    name: b"a",
    value: b"b",
    indexing: Indexing::Insert,
};

const NEW_CD: Proposal<'static> = Proposal {
    name: b"c",
    value: b"d",
    indexing: Indexing::Insert,
};

pub(crate) const OLD_AB: Proposal<'static> = Proposal {
    name: b"a",
    value: b"b",
    indexing: Indexing::Without,
};

pub(crate) const OLD_CD: Proposal<'static> = Proposal {
    name: b"c",
    value: b"d",
    indexing: Indexing::Without,
};

const OLD_CE: Proposal<'static> = Proposal {
    name: b"c",
    value: b"e",
    indexing: Indexing::Without,
};

pub(crate) const OLD_ROOT: Proposal<'static> = Proposal {
    name: b":path",
    value: b"/",
    indexing: Indexing::Without,
};

/// A call and what it does.
pub(crate) enum Step {
    /// The largest entry that is inserted by the policy, the bytes to keep available, and how many
    /// sections may be unacknowledged.
    Follows(u64, u64, u64),
    /// A capacity, and whether it is set.
    Resizes(u64, bool),
    /// A field, and whether it is inserted.
    Inserts(Field, bool),
    /// A section of a stream, its bytes, and what a decoder of the encoder stream reads in it.
    Sends(u64, &'static [Proposal<'static>], &'static [u8], &'static [Field]),
    /// Bytes of the decoder stream, the name of their fault, if they have one, and the Known
    /// Received Count after them.
    Hears(&'static [u8], &'static str, u64),
    /// The last bytes of the encoder stream.
    Writes(&'static [u8]),
    /// The entries that are left.
    Has(&'static [Field]),
}

/// What steps show, how many streams may be blocked, and the steps.
pub(crate) type Row = (&'static str, u64, &'static [Step]);

static ROWS: [Row; 6] = [
    (
        "lines of each kind",
        1,
        &[
            Step::Resizes(220, true),
            Step::Sends(
                4,
                &[NEW_AB, OLD_ROOT, NEW_CD, OLD_CE],
                b"\x03\x00\x81\xc1\x80\x40\x01e",
                &[AB, ROOT, CD, (b"c", b"e")],
            ),
            Step::Has(&[AB, CD]),
        ],
    ),
    (
        "no stream may be blocked",
        0,
        &[
            Step::Resizes(220, true),
            Step::Sends(0, &[NEW_AB], b"\x00\x00\x21a\x01b", &[AB]),
            Step::Hears(b"\x01", "", 1),
            Step::Sends(4, &[NEW_AB, NEW_CD], b"\x02\x01\x81\x21c\x01d", &[AB, CD]),
        ],
    ),
    (
        "one stream may be blocked, by any number of sections",
        1,
        &[
            Step::Resizes(220, true),
            Step::Sends(0, &[NEW_AB], b"\x02\x00\x80", &[AB]),
            Step::Sends(4, &[OLD_AB], b"\x00\x00\x21a\x01b", &[AB]),
            Step::Sends(0, &[NEW_CD], b"\x03\x00\x80", &[CD]),
            Step::Sends(4, &[OLD_ROOT], b"\x00\x00\xc1", &[ROOT]),
            Step::Hears(b"\x80\x40", "", 1),
            Step::Sends(4, &[OLD_AB], b"\x02\x01\x81", &[AB]),
            Step::Sends(4, &[OLD_CD], b"\x03\x00\x80", &[CD]),
        ],
    ),
    (
        "an entry stays until it is known to be received, and no section refers to it",
        1,
        &[
            Step::Follows(1024, 0, 256),
            Step::Resizes(4097, false),
            Step::Inserts(AB, false),
            Step::Resizes(34, true),
            Step::Inserts(AB, true),
            Step::Inserts(CD, false),
            Step::Resizes(0, false),
            Step::Sends(0, &[OLD_AB], b"\x02\x00\x80", &[AB]),
            Step::Hears(b"\x01", "", 1),
            Step::Inserts(CD, false),
            Step::Hears(b"\x80", "", 1),
            Step::Inserts((b"c", b"de"), false),
            Step::Inserts(CD, true),
            Step::Has(&[CD]),
        ],
    ),
    (
        "a section refers to no entry while as many as may be are not acknowledged",
        8,
        &[
            Step::Follows(1024, 0, 2),
            Step::Resizes(220, true),
            Step::Sends(0, &[NEW_AB], b"\x02\x00\x80", &[AB]),
            Step::Sends(4, &[OLD_AB], b"\x02\x00\x80", &[AB]),
            Step::Sends(8, &[NEW_CD], b"\x00\x00\x21c\x01d", &[CD]),
            Step::Sends(0, &[OLD_AB], b"\x00\x00\x21a\x01b", &[AB]),
            Step::Hears(b"\x80", "", 1),
            Step::Sends(8, &[OLD_CD], b"\x03\x00\x80", &[CD]),
            Step::Sends(0, &[OLD_AB], b"\x00\x00\x21a\x01b", &[AB]),
            Step::Hears(b"\x80", "UnknownSection", 1),
        ],
    ),
    (
        "entries as large as the table, with the name of the one that they evict, and duplicates",
        1,
        &[
            Step::Follows(1024, 0, 256),
            Step::Resizes(34, true),
            Step::Inserts(CD, true),
            Step::Hears(b"\x01", "", 1),
            Step::Inserts((b"c", b"e"), true),
            Step::Writes(b"\x80\x01e"),
            Step::Has(&[(b"c", b"e")]),
            Step::Hears(b"\x01", "", 2),
            Step::Inserts((b"c", b"e"), true),
            Step::Writes(b"\x80\x01e\x00"),
            Step::Hears(b"\x01", "", 3),
            Step::Resizes(68, true),
            Step::Inserts(AB, true),
            Step::Has(&[(b"c", b"e"), AB]),
            Step::Hears(b"\x01", "", 4),
            Step::Resizes(34, true),
            Step::Inserts((b"c", b"f"), true),
            Step::Writes(b"\x3f\x03\x41c\x01f"),
            Step::Hears(b"\x01", "", 5),
            Step::Resizes(0, true),
            Step::Has(&[]),
            Step::Inserts(AB, false),
            Step::Resizes(4096, true),
            Step::Sends(0, &[NEW_AB, OLD_CD], b"\x07\x00\x80\x21c\x01d", &[AB, CD]),
        ],
    ),
];

/// What a row shows, the bytes of a decoder stream, the name of their fault, the Known Received
/// Count after them, and how many of them are held.
type StreamRow = (&'static str, &'static [u8], &'static str, u64, usize);

/// After two insertions, and sections of the streams 4, 4 and 8 with the counts 1, 2 and 2.
static STREAMS: [StreamRow; 18] = [
    ("no byte", b"", "", 0, 0),
    ("the first section of a stream", b"\x84", "", 1, 0),
    ("both sections of a stream", b"\x84\x84", "", 2, 0),
    ("one section more", b"\x84\x84\x84", "UnknownSection", 2, 0),
    (
        "a section of another stream",
        b"\x85",
        "UnknownSection",
        0,
        0,
    ),
    ("a cancelled stream", b"\x44\x88", "", 2, 0),
    (
        "a section of a cancelled stream",
        b"\x44\x84",
        "UnknownSection",
        0,
        0,
    ),
    ("the cancellation of another stream", b"\x45", "", 0, 0),
    ("an increment", b"\x02", "", 2, 0),
    ("two increments", b"\x01\x01", "", 2, 0),
    ("an increment of 0", b"\x01\x00", "ZeroIncrement", 1, 0),
    (
        "an increment past the insertions",
        b"\x03",
        "IncrementTooLarge",
        0,
        0,
    ),
    ("another past them", b"\x01\x02", "IncrementTooLarge", 1, 0),
    ("a lower count after an increment", b"\x02\x84", "", 2, 0),
    ("a cut section", b"\x84\xff", "", 1, 1),
    (
        "a cut increment of ten bytes",
        b"\x3f\x80\x80\x80\x80\x80\x80\x80\x80\x80",
        "",
        0,
        10,
    ),
    (
        "an increment of eleven bytes that is still cut",
        b"\x3f\x80\x80\x80\x80\x80\x80\x80\x80\x80\x80",
        "IntegerOverflow",
        0,
        0,
    ),
    (
        "a stream of 2^64",
        b"\xff\x81\xff\xff\xff\xff\xff\xff\xff\xff\x01",
        "IntegerOverflow",
        0,
        0,
    ),
];

/// What comes before each of these streams.
static BEFORE: [Step; 4] = [
    Step::Resizes(4096, true),
    Step::Sends(4, &[NEW_AB], b"\x02\x00\x80", &[AB]),
    Step::Sends(4, &[NEW_CD], b"\x03\x00\x80", &[CD]),
    Step::Sends(8, &[OLD_AB, OLD_CD], b"\x03\x00\x81\x80", &[AB, CD]),
];

/// The name of a fault of a decoder stream.
fn fault_name(fault: DecoderStreamError) -> &'static str {
    match fault {
        DecoderStreamError::IntegerOverflow => "IntegerOverflow",
        DecoderStreamError::UnknownSection => "UnknownSection",
        DecoderStreamError::ZeroIncrement => "ZeroIncrement",
        DecoderStreamError::IncrementTooLarge => "IncrementTooLarge",
        DecoderStreamError::Memory => "Memory",
    }
}

/// Reads bytes of a decoder stream. Returns the name of their fault, if they have one.
fn hear(encoder: &mut QpackEncoder, piece: &[u8]) -> &'static str {
    match encoder.read_decoder_stream(piece) {
        Ok(()) => "",
        Err(fault) => fault_name(fault),
    }
}

/// Returns what a decoder makes of an encoder stream.
fn decoder_of(rt: &impl Abort, alloc: Global, stream: &[u8], shows: &str) -> EncoderStream {
    let mut decoder = EncoderStream::new(alloc, 4096);
    let fault = match decoder.read(alloc, stream) {
        Ok(()) => "",
        Err(fault) => stream_fault(fault),
    };
    assert!(rt; fault == "", "{shows}: {fault}");
    decoder
}

/// Encodes a section, and asserts its bytes and what a decoder reads in it.
fn assert_sends(
    rt: &impl Abort,
    alloc: Global,
    encoder: &mut QpackEncoder,
    stream: &mut Vec<u8>,
    section: (u64, &[Proposal<'static>], &[u8], &[Field]),
    shows: &str,
) {
    let (id, fields, wanted, read) = section;
    let mut bytes = Vec::new(alloc);
    let sent = encoder.encode(id, fields, stream, &mut bytes).is_ok();
    assert!(rt;
        sent && bytes.as_slice() == wanted,
        "{shows}: a section of stream {id}"
    );
    let decoder = decoder_of(rt, alloc, stream.as_slice(), shows);
    assert_fields(rt, alloc, decoder.table(), bytes.as_slice(), read, shows);
}

/// Asserts the entries of the encoder's table, and of a decoder of its stream.
fn assert_has(
    rt: &impl Abort,
    alloc: Global,
    encoder: &QpackEncoder,
    stream: &[u8],
    entries: &[Field],
    shows: &str,
) {
    assert_table(rt, encoder.table(), entries, shows);
    let decoder = decoder_of(rt, alloc, stream, shows);
    assert_table(rt, decoder.table(), entries, shows);
}

/// Asserts what a step does.
fn assert_step(
    rt: &impl Abort,
    alloc: Global,
    encoder: &mut QpackEncoder,
    stream: &mut Vec<u8>,
    step: &Step,
    shows: &str,
) {
    match step {
        Step::Follows(largest, reserved, unacknowledged) => encoder.set_policy(Policy {
            largest: *largest,
            reserved: *reserved,
            unacknowledged: *unacknowledged,
        }),
        Step::Writes(bytes) => {
            assert!(rt; stream.ends_with(bytes), "{shows}: the encoder stream");
        }
        Step::Resizes(capacity, wanted) => {
            let is_set = matches!(encoder.set_capacity(*capacity, stream), Ok(true));
            assert!(rt; is_set == *wanted, "{shows}: the capacity {capacity}");
        }
        Step::Inserts((name, value), wanted) => {
            let is_inserted = matches!(encoder.insert(name, value, stream), Ok(true));
            assert!(rt; is_inserted == *wanted, "{shows}: an insertion");
        }
        Step::Sends(id, fields, wanted, read) => {
            assert_sends(
                rt,
                alloc,
                encoder,
                stream,
                (*id, fields, wanted, read),
                shows,
            );
        }
        Step::Hears(piece, wanted, known) => {
            let fault = hear(encoder, piece);
            assert!(rt; fault == *wanted, "{shows}: {fault}");
            assert!(rt; encoder.known() == *known, "{shows}: the count");
        }
        Step::Has(entries) => assert_has(rt, alloc, encoder, stream.as_slice(), entries, shows),
    }
}

/// Asserts what steps do, one after the other. Returns the encoder after them.
fn assert_steps(
    rt: &impl Abort,
    alloc: Global,
    most: u64,
    steps: &[Step],
    shows: &str,
) -> QpackEncoder {
    let mut encoder = QpackEncoder::new(alloc, 4096, most);
    let mut stream = Vec::new(alloc);
    for step in steps {
        assert_step(rt, alloc, &mut encoder, &mut stream, step, shows);
    }
    encoder
}

/// Asserts what the steps of rows do.
pub(crate) fn assert_rows(rt: &impl Abort, alloc: Global, rows: &[Row]) {
    for (shows, most, steps) in rows {
        let _encoder = assert_steps(rt, alloc, *most, steps, shows);
    }
}

/// Asserts that a decoder that allows no table is sent no instruction (RFC 9204, section 3.2.3).
fn assert_silent(rt: &impl Abort, alloc: Global) {
    let mut encoder = QpackEncoder::new(alloc, 0, 1);
    let mut stream = Vec::new(alloc);
    let mut section = Vec::new(alloc);
    for capacity in [0, 1] {
        assert!(rt; matches!(encoder.set_capacity(capacity, &mut stream), Ok(false)));
    }
    assert!(rt; matches!(encoder.insert(b"a", b"b", &mut stream), Ok(false)));
    assert!(rt;
        encoder
            .encode(0, &[NEW_AB], &mut stream, &mut section)
            .is_ok()
    );
    assert!(rt; section.as_slice() == b"\x00\x00\x21a\x01b".as_slice());
    assert!(rt; stream.is_empty(), "an instruction for no table");
}

#[test]
fn encoder_calls(rt: HostRuntime) {
    assert_rows(&rt, rt.alloc(), &ROWS);
    assert_silent(&rt, rt.alloc());
}

/// Asserts what a decoder stream does, cut at one place.
fn assert_stream(rt: &impl Abort, alloc: Global, row: &StreamRow, cut: usize) {
    let (shows, bytes, fault, known, held) = row;
    let (first, second) = bytes.split_at(cut.min(bytes.len()));
    let mut encoder = assert_steps(rt, alloc, 2, &BEFORE, shows);
    let before = hear(&mut encoder, first);
    let found = hear(&mut encoder, second);
    assert!(rt; before == "" || before == found, "{shows}: the fault stays");
    assert!(rt; found == *fault, "{shows}, cut at {cut}: {found}");
    assert!(rt;
        encoder.known() == *known,
        "{shows}, cut at {cut}: the count"
    );
    if found == "" {
        assert!(rt;
            encoder.held() == *held,
            "{shows}, cut at {cut}: what is held"
        );
    }
}

#[test]
fn decoder_streams(rt: HostRuntime) {
    for row in &STREAMS {
        for cut in 0..row.1.len() + 1 {
            assert_stream(&rt, rt.alloc(), row, cut);
        }
    }
}

#[test]
fn static_entries(rt: HostRuntime) {
    assert!(rt; find_static(b":path", b"/") == Some(1));
    assert!(rt; find_static(b":status", b"500") == Some(71));
    assert!(rt; find_static(b"x-frame-options", b"sameorigin") == Some(98));
    assert!(rt; find_static(b":path", b"/x").is_none());
    assert!(rt; find_static(b"x", b"").is_none());
}
