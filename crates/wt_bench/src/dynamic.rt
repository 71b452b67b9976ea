//! QPACK with the dynamic table, for the benchmark and for fuzzing. The contracts say nothing of the
//! numbers, which the drivers compare.

use super::fields::add_line;
use super::pair::Pair;
use super::parts::first_part;
use std::alloc::{AllocError, Global};
use wtp_dynamic::acknowledgment::{self, Acknowledgment};
use wtp_dynamic::table::DynamicTable;
use wtp_dynamic_decoder::decoder::{Opened, QpackDecoder};
use wtp_dynamic_decoder::lines::{LineRoom, SectionLines};
use wtp_dynamic_encoder::encoder::QpackEncoder;
use wtp_dynamic_encoder::proposal::{Indexing, Proposal};

/// Returns a decoder that has read an encoder stream in pieces of this size, or `None` if it has a
/// fault.
fn decoder_after(alloc: Global, limit: u32, stream: &[u8], size: usize) -> Option<QpackDecoder> {
    let mut decoder = QpackDecoder::new(alloc, limit as u64, 0);
    for piece in stream.chunks(size.max(1)) {
        if decoder.read_encoder_stream(piece).is_err() {
            return None;
        }
    }
    Some(decoder)
}

/// Returns the size of the fields of lines (RFC 9114, section 4.2.2), or `None` if one has a fault.
fn lines_size<'a>(
    mut lines: SectionLines<'a>,
    table: &'a DynamicTable,
    room: &mut LineRoom,
) -> Option<usize> {
    let mut size: usize = 0;
    for _line in 0..u64::MAX {
        match lines.next_line(table, room) {
            None => return Some(size),
            Some(Err(_)) => return None,
            Some(Ok(line)) => match add_line(size, line) {
                Some(sum) => size = sum,
                None => return None,
            },
        }
    }
    None
}

/// Reads a section of a stream, and appends its acknowledgment. Returns the size of its fields, or
/// `None` if it waits or has a fault.
fn section_size(
    decoder: &mut QpackDecoder,
    stream: u64,
    section: &[u8],
    room: &mut LineRoom,
    told: &mut Vec<u8>,
) -> Option<usize> {
    let Ok(Opened::Lines(lines)) = decoder.open(stream, section) else {
        return None;
    };
    let required = lines.required().min(decoder.insert_count());
    let size = lines_size(lines, decoder.table(), room)?;
    decoder.acknowledge(stream, required, told).ok()?;
    Some(size)
}

/// Takes the first two parts: bytes of an encoder stream, and a section.
fn first_parts(parts: &[u8]) -> Option<(&[u8], &[u8], &[u8])> {
    let (stream, rest) = first_part(parts)?;
    let (section, rest) = first_part(rest)?;
    Some((stream, section, rest))
}

/// Reads parts, each of which is after its length in two bytes: bytes of an encoder stream, a section
/// that refers to no later ones, and so on. Returns the size of all fields, or -1 on an error.
#[unsafe(no_mangle)]
pub extern "C" fn wt_bench_dynamic_lines(alloc: Global, limit: u32, parts: &[u8]) -> i64 {
    let mut decoder = QpackDecoder::new(alloc, limit as u64, 0);
    let mut room = LineRoom::new(alloc);
    let mut told = Vec::new(alloc);
    let mut rest = parts;
    let mut sum: usize = 0;
    for id in 0..u64::MAX {
        if rest.is_empty() {
            return i64::try_from(sum).unwrap_or(-1);
        }
        let Some((stream, section, others)) = first_parts(rest) else {
            return -1;
        };
        if decoder.read_encoder_stream(stream).is_err() {
            return -1;
        }
        match section_size(&mut decoder, id, section, &mut room, &mut told) {
            Some(size) => sum = sum.saturating_add(size),
            None => return -1,
        }
        rest = others;
    }
    -1
}

/// Returns a sum over the entries of a table.
fn sum_of(table: &DynamicTable) -> u64 {
    let mut sum = table.insert_count();
    for index in table.dropped_for(u64::MAX)..table.insert_count() {
        if let Some((name, value)) = table.get(index) {
            for text in [name, value] {
                sum = sum.wrapping_mul(31).wrapping_add(text.len() as u64);
                for byte in text {
                    sum = sum.wrapping_mul(31).wrapping_add(*byte as u64);
                }
            }
        }
    }
    sum
}

/// Reads an encoder stream in pieces of this size. Returns a sum over the entries, the insertions
/// and the bytes that are held, or -1 on an error.
#[unsafe(no_mangle)]
pub extern "C" fn wt_bench_dynamic_table(
    alloc: Global,
    limit: u32,
    stream: &[u8],
    size: usize,
) -> i64 {
    match decoder_after(alloc, limit, stream, size) {
        Some(decoder) => {
            let held = decoder.held() as u64;
            let sum = sum_of(decoder.table()).wrapping_mul(31).wrapping_add(held);
            (sum / 2).cast_signed()
        }
        None => -1,
    }
}

/// Memory that is used for one section after another.
#[derive(Drop)]
struct Rooms<'a> {
    proposals: Vec<Proposal<'a>>,
    orders: Vec<u8>,
    section: Vec<u8>,
    heard: Vec<u8>,
}

impl<'a> Rooms<'a> {
    /// Creates rooms. Nothing is allocated.
    fn new(alloc: Global) -> Self {
        Rooms {
            proposals: Vec::new(alloc),
            orders: Vec::new(alloc),
            section: Vec::new(alloc),
            heard: Vec::new(alloc),
        }
    }

    /// Replaces the proposals by those of pairs, and empties the rest.
    fn fill(&mut self, pairs: &[Pair<'a>]) -> Result<(), AllocError> {
        self.proposals.clear();
        self.orders.clear();
        self.section.clear();
        self.heard.clear();
        for pair in pairs {
            self.proposals.push(Proposal::new(pair.name, pair.value))?;
        }
        Ok(())
    }
}

/// Encodes a section of a stream, and reads its acknowledgment. Returns how many bytes were written.
fn encode<'a>(
    alloc: Global,
    encoder: &mut QpackEncoder,
    rooms: &mut Rooms<'a>,
    stream: u64,
    pairs: &[Pair<'a>],
) -> Result<usize, AllocError> {
    rooms.fill(pairs)?;
    encoder.encode(
        stream,
        rooms.proposals.as_slice(),
        &mut rooms.orders,
        &mut rooms.section,
    )?;
    // A section that refers to the table begins with another byte than 0.
    if rooms.section.as_slice().first() != Some(&0) {
        acknowledgment::write(alloc, &mut rooms.heard, Acknowledgment::Section(stream))?;
    }
    match encoder.read_decoder_stream(rooms.heard.as_slice()) {
        Ok(()) => Ok(rooms.orders.len().saturating_add(rooms.section.len())),
        Err(_) => Err(AllocError),
    }
}

/// Encodes pairs as sections with this many fields, by an encoder with a table of this capacity to
/// which each section is acknowledged. Returns how many bytes were written, or -1 on an error.
#[unsafe(no_mangle)]
pub extern "C" fn wt_bench_dynamic_encode(
    alloc: Global,
    pairs: &[Pair<'_>],
    fields: usize,
    capacity: u32,
) -> i64 {
    let mut encoder = QpackEncoder::new(alloc, capacity as u64, 100);
    let mut rooms = Rooms::new(alloc);
    if encoder
        .set_capacity(capacity as u64, &mut rooms.orders)
        .is_err()
    {
        return -1;
    }
    let mut sum = rooms.orders.len();
    let mut stream: u64 = 0;
    for section in pairs.chunks(fields.max(1)) {
        match encode(alloc, &mut encoder, &mut rooms, stream, section) {
            Ok(size) => sum = sum.saturating_add(size),
            Err(_) => return -1,
        }
        stream = stream.saturating_add(4);
    }
    i64::try_from(sum).unwrap_or(-1)
}

/// The fields of the sections to which the decoder stream of [`wt_bench_dynamic_hear`] is heard.
static SENT: [&[u8]; 4] = [b"one", b"two", b"three", b"four"];

/// Returns an encoder that sent a section on each of four streams.
fn encoder_that_sent(alloc: Global) -> Result<QpackEncoder, AllocError> {
    let mut encoder = QpackEncoder::new(alloc, 4096, 8);
    let mut orders = Vec::new(alloc);
    let mut section = Vec::new(alloc);
    encoder.set_capacity(4096, &mut orders)?;
    let mut stream: u64 = 0;
    for name in SENT {
        let proposal = Proposal {
            name,
            value: b"value",
            indexing: Indexing::Insert,
        };
        encoder.encode(stream, &[proposal], &mut orders, &mut section)?;
        stream = stream.saturating_add(4);
    }
    Ok(encoder)
}

/// Reads a decoder stream in pieces of this size, by an encoder that sent four sections. Returns the
/// Known Received Count and the bytes that are held, or a negative number on an error.
#[unsafe(no_mangle)]
pub extern "C" fn wt_bench_dynamic_hear(alloc: Global, bytes: &[u8], size: usize) -> i64 {
    let Ok(mut encoder) = encoder_that_sent(alloc) else {
        return -1;
    };
    for piece in bytes.chunks(size.max(1)) {
        if encoder.read_decoder_stream(piece).is_err() {
            return -2;
        }
    }
    let known = encoder.known().min(1 << 32);
    (known * 16 + encoder.held() as u64).cast_signed()
}
