//! Streams in memory that transfer data in pieces, and are not ready before each piece. Both have
//! a model, so the contracts of their readers and writers are about their bytes.

ghost use Rattle.std.specs.Prelude.{◌≡◌, Some};
ghost use Rattle.wtransport_proto.specs.Source.{Source, AtEnd};
ghost use Rattle.wtransport_proto.specs.Sink.{Sink};

use wtransport_proto::bytes::{AsyncRead, AsyncWrite, ReadStep, WriteStep};

/// A source that returns at most `piece` bytes per call.
#[derive(Drop)]
pub struct Incoming<'a> {
    rest: &'a [u8],
    piece: usize,
    is_ready: bool,
    waits: u64,
}

impl<'a> Incoming<'a> {
    /// Creates a source over `bytes` that returns them in pieces of at most `piece` bytes, or of
    /// one byte if `piece` is 0.
    pub fn new(bytes: &'a [u8], piece: usize) -> Self
        ensures { result.rest.now ≡ bytes.now }
    {
        Incoming {
            rest: bytes,
            piece: piece.max(1),
            is_ready: false,
            waits: 0,
        }
    }

    /// Returns the bytes that have not been read.
    pub fn rest(&self) -> &'a [u8]
        ensures { result.now ≡ self.now.rest.now }
    {
        self.rest
    }

    /// Returns how often the source was not ready.
    pub fn waits(&self) -> u64
        ensures { result ≡ self.now.waits }
    {
        self.waits
    }
}

impl AsyncRead for Incoming<'_> {
    ghost model = { λ s. Some (record {
      ahead = s.rest.now;
      ending = AtEnd;
      asked = 0;
      waits = s.waits;
    }) };

    fn poll_read(&mut self, buf: &mut [u8]) -> ReadStep {
        if buf.is_empty() {
            return ReadStep::Bytes(0);
        }
        if !self.is_ready {
            // Each wait must be counted, so there are no more waits once the count is full.
            if let Some(waits) = self.waits.checked_add(1) {
                self.is_ready = true;
                self.waits = waits;
                return ReadStep::NotReady;
            }
        }
        self.is_ready = false;
        let n = self.rest.len().min(buf.len()).min(self.piece.max(1));
        let (front, rest) = self.rest.split_at(n);
        buf[..n].copy_from_slice(front);
        self.rest = rest;
        ReadStep::Bytes(n)
    }
}

/// A sink that accepts at most `piece` bytes per call.
#[derive(Drop)]
pub struct Outgoing {
    taken: Vec<u8>,
    piece: usize,
    is_ready: bool,
    waits: u64,
}

impl Outgoing {
    /// Creates a sink that appends to `taken` in pieces of at most `piece` bytes, or of one byte
    /// if `piece` is 0.
    pub fn new(taken: Vec<u8>, piece: usize) -> Self
        ensures { result.taken ≡ taken }
    {
        Outgoing {
            taken,
            piece: piece.max(1),
            is_ready: false,
            waits: 0,
        }
    }

    /// Returns the bytes that were written.
    pub fn into_taken(self) -> Vec<u8>
        ensures { result ≡ self.taken }
    {
        self.taken
    }
}

impl AsyncWrite for Outgoing {
    ghost model = { λ s. Some (record {
      taken = s.taken.items;
      waits = s.waits;
      stops = 0;
      losses = 0;
    }) };

    fn poll_write(&mut self, buf: &[u8]) -> WriteStep {
        if buf.is_empty() {
            return WriteStep::Bytes(0);
        }
        if !self.is_ready {
            if let Some(waits) = self.waits.checked_add(1) {
                self.is_ready = true;
                self.waits = waits;
                return WriteStep::NotReady;
            }
        }
        self.is_ready = false;
        let n = buf.len().min(self.piece.max(1));
        match self.taken.extend_from_slice(&buf[..n]) {
            Ok(()) => WriteStep::Bytes(n),
            Err(_) => WriteStep::NoMemory,
        }
    }
}
