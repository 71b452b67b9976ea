//! Reads messages by a connection, each to its verdict. The calls return the sizes of the field lists
//! (RFC 9114, section 4.2.2) and the bytes of the content, or -1 on an error. The contracts say
//! nothing of these numbers, which the driver compares.

use super::fields::add_line;
use super::parts::first_part;
use std::alloc::{AllocError, Global};
use wtp_fields::fields::FieldList;
use wtp_frames::endpoint::{Endpoint, Side};
use wtp_messages::response::Asked;
use wtp_webtransport::connection::Connection;
use wtp_webtransport::event::{Event, Waits};
use wtp_webtransport::fields::Fields;
use wtp_webtransport::stream::Stream;

/// The largest size of a field list.
const LIMIT: u64 = 65_536;

/// A connection that is read, and what was counted.
#[derive(Drop)]
struct Reading {
    /// The connection.
    connection: Connection,
    /// The memory for its field sections.
    fields: Fields,
    /// The sizes of the field lists, and the bytes of the content.
    sum: usize,
}

/// How the reading of a stream goes on.
#[derive(Clone, Copy)]
enum Next {
    /// With the next event, after fields or content of this size.
    Event(usize),
    /// The request is to be answered.
    Answer,
    /// When more bytes came.
    Later,
    /// The stream ended.
    End,
    /// Not: there is an error.
    Error,
}

impl Reading {
    /// Begins a connection that allows sessions.
    fn new(alloc: Global, side: Side) -> Self {
        let mut endpoint = Endpoint::new(side);
        endpoint.webtransport = true;
        endpoint.datagrams = true;
        Reading {
            connection: Connection::new(endpoint, true),
            fields: Fields::new(alloc, LIMIT),
            sum: 0,
        }
    }

    /// Reads what came of a stream. Returns how many bytes are consumed, or `None` on an error.
    fn read(&mut self, stream: &mut Stream, bytes: &[u8], fin: bool) -> Option<usize> {
        let mut start: usize = 0;
        for _event in 0..u64::MAX {
            let rest = bytes.get(start..).unwrap_or(&[]);
            let received = self.connection.receive(stream, rest, fin, &mut self.fields);
            start = start.saturating_add(received.consumed);
            match next_after(&received.event) {
                Next::Event(size) => self.sum = self.sum.saturating_add(size),
                Next::Answer => stream.answer(200),
                Next::Later if fin => return None,
                Next::Later | Next::End => return Some(start),
                Next::Error => return None,
            }
            if start == bytes.len() && !fin {
                return Some(start);
            }
        }
        None
    }

    /// Reads the first of parts, which is the peer's control stream. Returns the others.
    fn read_control<'a>(&mut self, parts: &'a [u8], id: u64) -> Option<&'a [u8]> {
        let (control, others) = first_part(parts)?;
        let mut stream = self.connection.accept(id);
        self.read(&mut stream, control, false)?;
        Some(others)
    }

    /// Returns what was counted.
    fn answer(&self) -> i64 {
        i64::try_from(self.sum).unwrap_or(-1)
    }
}

/// Returns how the reading of a stream goes on after an event.
fn next_after(event: &Event<'_>) -> Next {
    match event {
        Event::Headers(_, list) | Event::SessionRequested(list) => Next::Event(size_of(list)),
        Event::Data(piece) => Next::Event(piece.len()),
        Event::Opened(_)
        | Event::Settings(_, _)
        | Event::Frame(_, _)
        | Event::Skipped
        | Event::SessionClosed(_) => Next::Event(0),
        Event::Waits(Waits::Answer) => Next::Answer,
        Event::More => Next::Later,
        Event::End => Next::End,
        _ => Next::Error,
    }
}

/// Returns the size of a field list.
fn size_of(list: &FieldList) -> usize {
    let mut size: usize = 0;
    for line in list.iter() {
        size = add_line(size, line).unwrap_or(size);
    }
    size
}

/// Reads requests to a server: parts, each of which is after its length in two bytes, the control
/// stream of the client and then requests, each on its own stream. A session is accepted, and its
/// content is not counted.
#[unsafe(no_mangle)]
pub extern "C" fn wt_bench_requests(alloc: Global, parts: &[u8]) -> i64 {
    let mut reading = Reading::new(alloc, Side::Server);
    let Some(mut rest) = reading.read_control(parts, 2) else {
        return -1;
    };
    for n in 0..u64::MAX {
        let Some((bytes, others)) = first_part(rest) else {
            return reading.answer();
        };
        let mut stream = reading.connection.accept(n.saturating_mul(4));
        if reading.read(&mut stream, bytes, true).is_none() {
            return -1;
        }
        rest = others;
    }
    -1
}

/// Reads responses to a client in the same form, after the control stream of the server.
#[unsafe(no_mangle)]
pub extern "C" fn wt_bench_responses(alloc: Global, parts: &[u8]) -> i64 {
    let mut reading = Reading::new(alloc, Side::Client);
    let Some(mut rest) = reading.read_control(parts, 3) else {
        return -1;
    };
    for _message in 0..u64::MAX {
        let Some((bytes, others)) = first_part(rest) else {
            return reading.answer();
        };
        let mut stream = reading.connection.open(Asked::Other);
        if reading.read(&mut stream, bytes, true).is_none() {
            return -1;
        }
        rest = others;
    }
    -1
}

/// Reads a request of which `size` bytes come at a time, and its end with the last ones.
#[unsafe(no_mangle)]
pub extern "C" fn wt_bench_content(alloc: Global, bytes: &[u8], size: usize) -> i64 {
    let mut reading = Reading::new(alloc, Side::Server);
    let mut stream = reading.connection.accept(0);
    let mut start: usize = 0;
    let mut end = size.min(bytes.len());
    for _piece in 0..u64::MAX {
        let piece = bytes.get(start..end).unwrap_or(&[]);
        let is_last = end == bytes.len();
        let Some(n) = reading.read(&mut stream, piece, is_last) else {
            return -1;
        };
        if is_last {
            return reading.answer();
        }
        start = start.saturating_add(n);
        end = end.saturating_add(size).min(bytes.len());
    }
    -1
}

/// A stream, and how many of its bytes are consumed.
#[derive(Drop)]
struct OpenStream {
    stream: Stream,
    consumed: usize,
}

/// Opens so many streams and reads all but the last byte of the same request on each of them.
fn begin_streams(
    alloc: Global,
    reading: &mut Reading,
    request: &[u8],
    count: u32,
) -> Result<Option<Vec<OpenStream>>, AllocError> {
    let mut streams = Vec::new(alloc);
    let first = match request.split_last() {
        Some((_, others)) => others,
        None => request,
    };
    for n in 0..count {
        let mut stream = reading.connection.accept(n as u64 * 4);
        let Some(consumed) = reading.read(&mut stream, first, false) else {
            return Ok(None);
        };
        streams.push(OpenStream { stream, consumed })?;
    }
    Ok(Some(streams))
}

/// Reads the same request on so many streams. All of them are open, and all but the last byte of
/// each is read, before the first of them ends.
#[unsafe(no_mangle)]
pub extern "C" fn wt_bench_streams(alloc: Global, request: &[u8], count: u32) -> i64 {
    let mut reading = Reading::new(alloc, Side::Server);
    let Ok(Some(mut streams)) = begin_streams(alloc, &mut reading, request, count) else {
        return -1;
    };
    for one in streams.iter_mut() {
        let rest = request.get(one.consumed..).unwrap_or(&[]);
        if reading.read(&mut one.stream, rest, true).is_none() {
            return -1;
        }
    }
    reading.answer()
}
