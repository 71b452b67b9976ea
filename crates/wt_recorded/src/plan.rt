//! What is to be done on streams that are opened here, and what came for them.
use anyhow::Result;
use std::alloc::Global;
use std::collections::{BTreeMap, VecDeque};
use vesgrauf::{FieldList, Side, StatusCode};

/// Bytes of a stream.
#[derive(Drop)]
pub struct Piece {
    pub name: u64,
    pub bytes: Vec<u8>,
    pub fin: bool,
}

/// What is to be done on streams that are opened here, and what came for them. The streams of sessions have names: their
/// IDs in the script, which the connection chooses anew.
#[derive(Drop)]
pub struct Plan {
    /// The lowest bit of the IDs of streams that are opened here.
    own: u64,
    /// The requests that are not sent, in the order of their IDs.
    pub requests: VecDeque<(u64, FieldList)>,
    /// The ID that the next request gets at least.
    pub next: u64,
    /// The streams of sessions that are not open, with their sessions.
    pub streams: VecDeque<(u64, u64)>,
    /// What came, and is not passed on.
    pub pieces: VecDeque<Piece>,
    /// What came of streams that are not open.
    early: VecDeque<Piece>,
    /// The IDs of the own streams by their names, and their names.
    ids: BTreeMap<u64, u64>,
    names: BTreeMap<u64, u64>,
    /// The answers by their streams.
    pub answers: BTreeMap<u64, StatusCode>,
    /// The requests without an answer, and whether they are CONNECT requests.
    pub unanswered: BTreeMap<u64, bool>,
}

impl Plan {
    /// Nothing is to be done.
    pub fn new(alloc: Global, side: Side) -> Self {
        Plan {
            own: if side == Side::Client { 0 } else { 1 },
            requests: VecDeque::new(alloc),
            next: 0,
            streams: VecDeque::new(alloc),
            pieces: VecDeque::new(alloc),
            early: VecDeque::new(alloc),
            ids: BTreeMap::new(alloc),
            names: BTreeMap::new(alloc),
            answers: BTreeMap::new(alloc),
            unanswered: BTreeMap::new(alloc),
        }
    }

    /// Returns the ID of a stream.
    pub fn id(&self, name: u64) -> u64 {
        self.ids.get(&name).copied().unwrap_or(name)
    }

    /// Returns the name of a stream.
    pub fn name(&self, id: u64) -> u64 {
        self.names.get(&id).copied().unwrap_or(id)
    }

    /// Takes bytes of a stream.
    pub fn arrive(&mut self, piece: Piece) -> Result<()> {
        if piece.name % 2 == self.own && !self.ids.contains_key(&piece.name) {
            self.early.push_back(piece)?;
        } else {
            self.pieces.push_back(piece)?;
        }
        Ok(())
    }

    /// A stream was opened.
    pub fn opened(&mut self, name: u64, id: u64) -> Result<()> {
        self.ids.insert(name, id)?;
        self.names.insert(id, name)?;
        for _piece in 0..self.early.len() {
            if let Some(piece) = self.early.pop_front() {
                self.arrive(piece)?;
            }
        }
        Ok(())
    }
}
