//! One direction of a connection: what one end sent, and the other has not received.
use crate::conditions::Chance;
use anyhow::{Result, bail};
use std::alloc::{AllocError, Global};
use std::collections::{BTreeMap, BTreeSet, VecDeque};
use vesgrauf::output::StreamKind;

/// How a half of a stream is over.
#[derive(Clone, Copy, Debug, PartialEq, Eq)]
enum Over {
    /// Nothing ended it so far.
    Not,
    /// It ends after its bytes.
    End,
    /// It is reset with this code.
    Reset(u64),
}

/// The bytes of a stream that are under way.
#[derive(Drop)]
struct Flight {
    bytes: Vec<u8>,
    /// How many of them are delivered.
    delivered: usize,
    over: Over,
}

/// What is delivered of a stream at once.
#[derive(Drop)]
pub(crate) enum Piece {
    /// Bytes, and whether the stream ends after them.
    Bytes(Vec<u8>, bool),
    /// A reset with this code, and how many bytes before it are lost.
    Reset(u64, usize),
}

/// What QUIC says to the other end beside streams and datagrams.
#[derive(Clone, Copy, Debug, PartialEq, Eq)]
pub(crate) enum Signal {
    /// STOP_SENDING: a stream and a code.
    Stop(u64, u64),
    /// So many more bytes may be sent on a stream.
    StreamCredit(u64, usize),
    /// So many more bytes may be sent.
    Credit(usize),
    /// One more stream of this kind may be opened.
    MayOpen(StreamKind),
    /// So many bytes of a stream arrived.
    Acked(u64, u64),
    /// The end or the reset of a stream arrived.
    AckedEnd(u64),
}

/// One direction of a connection.
#[derive(Drop)]
pub(crate) struct Wire {
    alloc: Global,
    streams: BTreeMap<u64, Flight>,
    /// The streams of which nothing more may be sent.
    over: BTreeSet<u64>,
    pub(crate) signals: VecDeque<Signal>,
    pub(crate) datagrams: VecDeque<Vec<u8>>,
    /// The code with which the sender closed the connection.
    pub(crate) closed: Option<u64>,
}

impl Wire {
    /// Creates a direction in which nothing was sent.
    pub(crate) fn new(alloc: Global) -> Self {
        Wire {
            alloc,
            streams: BTreeMap::new(alloc),
            over: BTreeSet::new(alloc),
            signals: VecDeque::new(alloc),
            datagrams: VecDeque::new(alloc),
            closed: None,
        }
    }

    /// Takes the first `len` bytes of `bytes` and `more`, and the end of the stream after them.
    pub(crate) fn send(
        &mut self,
        id: u64,
        bytes: &[u8],
        more: &[u8],
        len: usize,
        fin: bool,
    ) -> Result<()> {
        if self.over.contains(&id) {
            bail!("bytes of stream {id} after its end");
        }
        let first = len.min(bytes.len());
        let flight = self.flight(id)?;
        flight
            .bytes
            .extend_from_slice(bytes.get(..first).unwrap_or(bytes))?;
        let left = len.saturating_sub(first);
        flight
            .bytes
            .extend_from_slice(more.get(..left).unwrap_or(more))?;
        if fin {
            flight.over = Over::End;
            self.over.insert(id)?;
        }
        Ok(())
    }

    /// Takes a reset. After the end of a stream, it has none if the end arrived.
    pub(crate) fn reset(&mut self, id: u64, code: u64) -> Result<()> {
        if self.over.contains(&id) && !self.streams.contains_key(&id) {
            return Ok(());
        }
        let flight = self.flight(id)?;
        if matches!(flight.over, Over::Reset(_)) {
            bail!("stream {id} is reset twice");
        }
        flight.over = Over::Reset(code);
        self.over.insert(id)?;
        Ok(())
    }

    /// Returns what is under way of a stream.
    fn flight(&mut self, id: u64) -> Result<&mut Flight, AllocError> {
        let alloc = self.alloc;
        let flight = self.streams.entry(id)?.or_insert(Flight {
            bytes: Vec::new(alloc),
            delivered: 0,
            over: Over::Not,
        });
        Ok(flight)
    }

    /// Returns the streams of which something is under way.
    pub(crate) fn ids(&self) -> Result<Vec<u64>, AllocError> {
        let mut ids = Vec::new(self.alloc);
        for (id, flight) in &self.streams {
            if flight.delivered < flight.bytes.len() || flight.over != Over::Not {
                ids.push(*id)?;
            }
        }
        Ok(ids)
    }

    /// Takes what is delivered next of a stream. A reset may overtake the bytes before it.
    pub(crate) fn deliver(&mut self, id: u64, chance: &mut Chance) -> Result<Option<Piece>> {
        let Some(flight) = self.streams.get_mut(&id) else {
            return Ok(None);
        };
        let left = flight.bytes.get(flight.delivered..).unwrap_or(&[]);
        if let Over::Reset(code) = flight.over {
            if left.is_empty() || chance.delays() {
                let lost = left.len();
                self.streams.remove(&id);
                return Ok(Some(Piece::Reset(code, lost)));
            }
        }
        let piece = left.get(..chance.piece()).unwrap_or(left);
        let fin = flight.over == Over::End && piece.len() == left.len();
        let bytes = Vec::from_slice(self.alloc, piece)?;
        flight.delivered = flight.delivered.saturating_add(piece.len());
        if flight.delivered >= flight.bytes.len() {
            flight.bytes.clear();
            flight.delivered = 0;
        }
        if fin {
            self.streams.remove(&id);
        }
        Ok(Some(Piece::Bytes(bytes, fin)))
    }

    /// Takes a datagram.
    pub(crate) fn take_datagram(&mut self, bytes: &[u8]) -> Result<(), AllocError> {
        let datagram = Vec::from_slice(self.alloc, bytes)?;
        self.datagrams.push_back(datagram)?;
        Ok(())
    }

    /// Tells the other end how much more it may send: on a stream, and on all.
    pub(crate) fn credit(&mut self, id: u64, len: usize) -> Result<(), AllocError> {
        if len > 0 {
            self.signals.push_back(Signal::StreamCredit(id, len))?;
            self.signals.push_back(Signal::Credit(len))?;
        }
        Ok(())
    }

    /// Drops all that is under way.
    pub(crate) fn discard(&mut self) {
        self.streams.clear();
        self.signals.clear();
        self.datagrams.clear();
        self.closed = None;
    }

    /// Returns whether nothing is under way.
    pub(crate) fn is_quiet(&self) -> Result<bool, AllocError> {
        let ids = self.ids()?;
        Ok(ids.is_empty() && self.signals.is_empty() && self.datagrams.is_empty())
    }
}
