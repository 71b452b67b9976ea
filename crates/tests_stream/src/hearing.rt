//! A request stream at a server, and notes of what was heard on it.
use std::alloc::{AllocError, Global};
use vesgrauf_stream::bytes::{Bytes, Chunk};
use vesgrauf_stream::heard::Heard;
use vesgrauf_stream::reading::{Found, Reading};
use wtp_frames::endpoint::{Endpoint, Side};
use wtp_webtransport::connection::Connection;
use wtp_webtransport::event::{Event, HeadersKind};
use wtp_webtransport::fields::Fields;

/// How many calls a chunk takes at most.
const CALLS: u32 = 10_000;

/// A request stream at a server.
#[derive(Drop)]
pub(crate) struct Hearing {
    alloc: Global,
    shared: Connection,
    fields: Fields,
    reading: Reading,
    /// A letter for each event but for content, and the bytes of that.
    pub(crate) notes: Vec<u8>,
    /// How many bytes of content were copied.
    pub(crate) copied: usize,
}

impl Hearing {
    pub(crate) fn new(alloc: Global) -> Self {
        let mut shared = Connection::new(Endpoint::new(Side::Server), false);
        let stream = shared.accept(0);
        Hearing {
            alloc,
            shared,
            fields: Fields::new(alloc, 65_536),
            reading: Reading::new(alloc, stream),
            notes: Vec::new(alloc),
            copied: 0,
        }
    }

    /// Returns how many bytes are kept.
    pub(crate) fn kept(&self) -> usize {
        self.reading.len()
    }

    /// Passes a chunk, and its end, and keeps what is not read.
    pub(crate) fn pass(&mut self, bytes: &[u8], fin: bool) -> Result<(), AllocError> {
        let mut chunk = Chunk::new(bytes, fin);
        for _call in 0..CALLS {
            let found = self
                .reading
                .next(self.alloc, &mut self.shared, &mut self.fields, &mut chunk)?;
            match found {
                Found::Again => {}
                Found::Heard(Heard::Event(Event::More)) => break,
                Found::Heard(heard) => self.note(heard)?,
            }
        }
        self.reading.keep(&mut chunk)
    }

    fn note(&mut self, heard: Heard<'_>) -> Result<(), AllocError> {
        match heard {
            Heard::Data(bytes) => {
                if let Bytes::Kept(copy) = &bytes {
                    self.copied = self.copied.saturating_add(copy.len());
                }
                self.notes.extend_from_slice(bytes.as_slice())
            }
            Heard::Event(Event::Headers(HeadersKind::Request, _)) => self.mark(b"R"),
            Heard::Event(Event::End) => self.mark(b"E"),
            Heard::Event(Event::Opened(_) | Event::Skipped) => Ok(()),
            _ => self.mark(b"?"),
        }
    }

    fn mark(&mut self, letter: &[u8]) -> Result<(), AllocError> {
        self.notes.extend_from_slice(letter)
    }
}
