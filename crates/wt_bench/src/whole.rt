//! Whole connections of a server. Each call makes one, brings it to where something is measured, and does that so many
//! times: what is done once is had from two numbers. The calls return the sizes of the field lists (RFC 9114, section
//! 4.2.2) and the bytes of the content that came, and the bytes that QUIC took of the streams of requests, or -1 on an
//! error. The contracts say nothing of these numbers, which the driver compares.
//!
//! The input is parts, each after its length in two bytes: the control stream of the client, its encoder stream, what
//! comes at first on each stream of a request, the response as names and values, and the content of a piece.

use super::fields::add_line;
use super::parts::first_part;
use std::alloc::{AllocError, Global};
use vesgrauf::FieldList;
use vesgrauf::config::Config;
use vesgrauf::connection::Connection;
use vesgrauf::event::{Event, EventKind};
use vesgrauf::input::Input;
use vesgrauf::output::Output;

/// The streams of the client: its control stream, and those of QPACK.
const CONTROL: u64 = 2;

const ENCODER: u64 = 6;

const DECODER: u64 = 10;

/// H3_REQUEST_CANCELLED (RFC 9114, section 8.1).
const CANCELLED: u64 = 0x10c;

/// How many pieces are made before any of them is sent without a copy.
const MADE: usize = 1010;

/// A connection of a server, and what was counted.
#[derive(Drop)]
struct Server {
    connection: Connection,
    sum: usize,
}

/// What comes and what is sent.
#[derive(Clone, Copy)]
struct Parts<'a> {
    control: &'a [u8],
    encoder: &'a [u8],
    request: &'a [u8],
    response: &'a [u8],
    piece: &'a [u8],
}

/// Takes the input apart.
fn parts_in(input: &[u8]) -> Option<Parts<'_>> {
    let (control, rest) = first_part(input)?;
    let (encoder, rest) = first_part(rest)?;
    let (request, rest) = first_part(rest)?;
    let (response, rest) = first_part(rest)?;
    let (piece, _) = first_part(rest)?;
    Some(Parts {
        control,
        encoder,
        request,
        response,
        piece,
    })
}

/// Returns the limits of a server that has all memory, with dynamic tables of this capacity.
fn config(capacity: u32) -> Config {
    Config {
        qpack_max_table_capacity: capacity,
        encoder_table_capacity: capacity,
        max_streams: u64::MAX,
        max_resets: u64::MAX,
        keep_until_acked: true,
        ..Config::server()
    }
}

/// Returns the field list of names and values, each after its length.
fn list_of(alloc: Global, texts: &[u8]) -> Option<FieldList> {
    let mut list = FieldList::with_room(alloc, texts.len().saturating_mul(4));
    let mut rest = texts;
    for _field in 0..texts.len() {
        let Some((name, others)) = first_part(rest) else {
            return Some(list);
        };
        let (value, others) = first_part(others)?;
        if list.append(name, value).is_err() {
            return None;
        }
        rest = others;
    }
    Some(list)
}

/// Returns how much an event counts.
fn size_of(event: &Event<'_>) -> usize {
    match &event.kind {
        EventKind::Data(bytes) => bytes.as_slice().len(),
        EventKind::Request(list) => {
            let mut size: usize = 0;
            for line in list.iter() {
                size = add_line(size, line).unwrap_or(size);
            }
            size
        }
        _ => 0,
    }
}

/// Returns whether these are HEADERS whose section refers to the dynamic table: it begins with another byte than 0.
fn is_dynamic(frame: &[u8]) -> bool {
    if frame.first() != Some(&1) {
        return false;
    }
    let start = match frame.get(1) {
        Some(len) if *len < 64 => frame.get(2),
        _ => frame.get(3),
    };
    start != Some(&0)
}

impl Server {
    /// Creates a connection, and opens its streams and those of the client.
    fn new(alloc: Global, capacity: u32, parts: Parts<'_>) -> Option<Self> {
        let Ok(connection) = Connection::new(alloc, config(capacity)) else {
            return None;
        };
        let mut server = Server { connection, sum: 0 };
        let is_begun = server.come(CONTROL, parts.control, false)
            && server.come(ENCODER, parts.encoder, false)
            && server.come(DECODER, &[3], false)
            && server.send();
        if is_begun { Some(server) } else { None }
    }

    /// Takes in an input. Returns whether memory is left.
    fn hear(&mut self, input: Input<'_>) -> bool {
        let mut input = input;
        for _event in 0..u64::MAX {
            match self.connection.next_event(&mut input) {
                Ok(Some(event)) => self.sum = self.sum.saturating_add(size_of(&event)),
                Ok(None) => return true,
                Err(_) => return false,
            }
        }
        false
    }

    /// Takes in bytes of a stream.
    fn come(&mut self, id: u64, bytes: &[u8], fin: bool) -> bool {
        self.hear(Input::stream(id, bytes, fin))
    }

    /// Does what QUIC is to do, and takes what it is to send: the peer acknowledges that at once. Returns whether there
    /// was no error.
    fn send(&mut self) -> bool {
        for _output in 0..u64::MAX {
            let is_done = match self.connection.output() {
                None => break,
                Some(Output::Open { id, .. }) => self.connection.opened(id),
                Some(_) => self.connection.output_taken(),
            };
            if is_done.is_err() {
                return false;
            }
        }
        for _piece in 0..u64::MAX {
            match self.send_next() {
                Some(true) => {}
                Some(false) => return true,
                None => return false,
            }
        }
        false
    }

    /// Takes the next bytes. Returns whether there were any, or `None` on an error.
    fn send_next(&mut self) -> Option<bool> {
        let Some(next) = self.connection.next_send() else {
            return Some(false);
        };
        let id = next.id;
        let len = next.bytes.len().saturating_add(next.more.len());
        let is_to_tell = is_dynamic(next.bytes) && id % 4 == 0;
        if self.connection.sent(id, len).is_err() {
            return None;
        }
        if self.connection.acked(id, len as u64).is_err() {
            return None;
        }
        if id % 4 == 0 {
            self.sum = self.sum.saturating_add(len);
        }
        if is_to_tell && !self.acknowledge(id) {
            return None;
        }
        Some(true)
    }

    /// The client acknowledges the section of a stream, of the first 4,096 (RFC 9204, section 4.4.1).
    fn acknowledge(&mut self, id: u64) -> bool {
        let rest = id.saturating_sub(127);
        let low = (rest % 128) as u8;
        let high = (rest / 128 % 128) as u8;
        if id < 127 {
            self.come(DECODER, &[128 + (id % 128) as u8], false)
        } else if rest < 128 {
            self.come(DECODER, &[255, low], false)
        } else {
            self.come(DECODER, &[255, 128 + low, high], false)
        }
    }

    /// Opens so many streams, on each of which the same comes, and sends what follows.
    fn open(&mut self, streams: u32, request: &[u8]) -> bool {
        for n in 0..streams {
            if !self.come(u64::from(n) * 4, request, false) || !self.send() {
                return false;
            }
        }
        true
    }

    /// Responds on the first streams, so many.
    fn respond(&mut self, count: u32, list: &FieldList) -> bool {
        for n in 0..count {
            if self
                .connection
                .respond(u64::from(n) * 4, list, false)
                .is_err()
                || !self.send()
            {
                return false;
            }
        }
        true
    }

    /// Returns what was counted, if there was no error.
    fn answer(&self, is_done: bool) -> i64 {
        if is_done {
            i64::try_from(self.sum).unwrap_or(-1)
        } else {
            -1
        }
    }
}

/// Creates a connection with so many open streams. Returns it with the parts of the input.
fn server_with(
    alloc: Global,
    streams: u32,
    capacity: u32,
    input: &[u8],
) -> Option<(Server, Parts<'_>)> {
    let parts = parts_in(input)?;
    let mut server = Server::new(alloc, capacity, parts)?;
    if server.open(streams, parts.request) {
        Some((server, parts))
    } else {
        None
    }
}

/// Takes in the same piece on so many streams in turn, so often.
#[unsafe(no_mangle)]
pub extern "C" fn wt_bench_whole_content(
    alloc: Global,
    streams: u32,
    count: u32,
    capacity: u32,
    input: &[u8],
) -> i64 {
    let Some((mut server, parts)) = server_with(alloc, streams, capacity, input) else {
        return -1;
    };
    let mut stream: u32 = 0;
    for _piece in 0..count {
        if !server.come(u64::from(stream) * 4, parts.piece, false) {
            return -1;
        }
        stream = if stream.saturating_add(1) < streams {
            stream + 1
        } else {
            0
        };
    }
    server.answer(true)
}

/// Asks for an event so often where there is none.
#[unsafe(no_mangle)]
pub extern "C" fn wt_bench_whole_nothing(
    alloc: Global,
    streams: u32,
    count: u32,
    capacity: u32,
    input: &[u8],
) -> i64 {
    let Some((mut server, _)) = server_with(alloc, streams, capacity, input) else {
        return -1;
    };
    let mut none = Input::none();
    for _call in 0..count {
        match server.connection.next_event(&mut none) {
            Ok(None) => {}
            _ => return -1,
        }
    }
    server.answer(true)
}

/// Takes in so many more requests than there are, and their ends.
#[unsafe(no_mangle)]
pub extern "C" fn wt_bench_whole_requests(
    alloc: Global,
    streams: u32,
    count: u32,
    capacity: u32,
    input: &[u8],
) -> i64 {
    let Some((mut server, parts)) = server_with(alloc, streams, capacity, input) else {
        return -1;
    };
    for n in 0..count {
        let id = (u64::from(streams) + u64::from(n)) * 4;
        if !server.come(id, parts.request, true) || !server.send() {
            return -1;
        }
    }
    server.answer(true)
}

/// Responds on so many of the streams.
#[unsafe(no_mangle)]
pub extern "C" fn wt_bench_whole_responses(
    alloc: Global,
    streams: u32,
    count: u32,
    capacity: u32,
    input: &[u8],
) -> i64 {
    let Some((mut server, parts)) = server_with(alloc, streams, capacity, input) else {
        return -1;
    };
    let Some(list) = list_of(alloc, parts.response) else {
        return -1;
    };
    let is_done = server.respond(count, &list);
    server.answer(is_done)
}

/// Sends the same piece so often on the first of the streams, after responses on all.
#[unsafe(no_mangle)]
pub extern "C" fn wt_bench_whole_send(
    alloc: Global,
    streams: u32,
    count: u32,
    capacity: u32,
    input: &[u8],
) -> i64 {
    let Some((mut server, parts)) = server_with(alloc, streams, capacity, input) else {
        return -1;
    };
    let Some(list) = list_of(alloc, parts.response) else {
        return -1;
    };
    if !server.respond(streams, &list) {
        return -1;
    }
    for _piece in 0..count {
        if server.connection.send(0, parts.piece, false).is_err() || !server.send() {
            return -1;
        }
    }
    server.answer(true)
}

/// Makes pieces that are sent without a copy.
fn pieces_of(alloc: Global, bytes: &[u8]) -> Result<Vec<Vec<u8>>, AllocError> {
    let mut pieces = Vec::new(alloc);
    for _piece in 0..MADE {
        let mut piece = Vec::new(alloc);
        piece.extend_from_slice(bytes)?;
        pieces.push(piece)?;
    }
    Ok(pieces)
}

/// Sends as `wt_bench_whole_send` does, without a copy.
#[unsafe(no_mangle)]
pub extern "C" fn wt_bench_whole_send_owned(
    alloc: Global,
    streams: u32,
    count: u32,
    capacity: u32,
    input: &[u8],
) -> i64 {
    let Some((mut server, parts)) = server_with(alloc, streams, capacity, input) else {
        return -1;
    };
    let Some(list) = list_of(alloc, parts.response) else {
        return -1;
    };
    let Ok(mut pieces) = pieces_of(alloc, parts.piece) else {
        return -1;
    };
    if !server.respond(streams, &list) {
        return -1;
    }
    for _piece in 0..count {
        let Some(piece) = pieces.pop() else {
            return -1;
        };
        if server.connection.send_owned(0, piece, false).is_err() || !server.send() {
            return -1;
        }
    }
    server.answer(true)
}

/// Opens and closes so many more streams than there are: the client sends one byte on each and resets it.
#[unsafe(no_mangle)]
pub extern "C" fn wt_bench_whole_open(
    alloc: Global,
    streams: u32,
    count: u32,
    capacity: u32,
    input: &[u8],
) -> i64 {
    let Some((mut server, parts)) = server_with(alloc, streams, capacity, input) else {
        return -1;
    };
    let first = parts.request.get(..1).unwrap_or(&[]);
    for n in 0..count {
        let id = (u64::from(streams) + u64::from(n)) * 4;
        let is_done = server.come(id, first, false)
            && server.hear(Input::stream_reset(id, CANCELLED))
            && server.send()
            && server.hear(Input::stream_closed(id));
        if !is_done {
            return -1;
        }
    }
    server.answer(true)
}

/// Takes in so many more requests than there are, and responds to each with one piece of content; then QUIC closes the
/// stream.
#[unsafe(no_mangle)]
pub extern "C" fn wt_bench_whole_exchange(
    alloc: Global,
    streams: u32,
    count: u32,
    capacity: u32,
    input: &[u8],
) -> i64 {
    let Some((mut server, parts)) = server_with(alloc, streams, capacity, input) else {
        return -1;
    };
    let Some(list) = list_of(alloc, parts.response) else {
        return -1;
    };
    for n in 0..count {
        let id = (u64::from(streams) + u64::from(n)) * 4;
        let is_done = server.come(id, parts.request, true)
            && server.connection.respond(id, &list, false).is_ok()
            && server.connection.send(id, parts.piece, true).is_ok()
            && server.send()
            && server.hear(Input::stream_closed(id));
        if !is_done {
            return -1;
        }
    }
    server.answer(true)
}
