//! One end of a connection: what its QUIC would know of it, and the loops of a program round it.
use crate::conditions::{Chance, Conditions};
use crate::connections::Connections;
use crate::handler::Handler;
use crate::wire::{Signal, Wire};
use anyhow::{Result, bail};
use std::alloc::Global;
use std::collections::{BTreeMap, BTreeSet};
use vesgrauf::connection::Connection;
use vesgrauf::input::Input;
use vesgrauf::output::{Output, Scope, StreamKind};

/// The most turns of a loop.
const TURNS: u32 = 100_000;

/// The bit of the IDs of streams that a server opens, and that of streams in one direction (RFC 9000, section 2.1).
pub(crate) const SERVER: u64 = 1;

const UNIDIRECTIONAL: u64 = 2;

/// The halves of a stream that are over.
#[derive(Clone, Copy, Debug, PartialEq, Eq)]
pub(crate) struct Halves {
    pub(crate) sent: bool,
    pub(crate) received: bool,
}

/// The streams of a kind that an end opened, and how many it may open.
#[derive(Clone, Copy, Debug, PartialEq, Eq)]
pub(crate) struct Opened {
    /// The ID of the next one.
    next: u64,
    /// How many more may be opened.
    pub(crate) left: u64,
    /// Whether the connection knows that none may be opened.
    pub(crate) is_blocked: bool,
}

impl Opened {
    /// Returns whether a stream may be opened that the connection was told to wait with.
    pub(crate) fn is_delayed(&self) -> bool {
        self.is_blocked && self.left > 0
    }
}

/// One end of a connection.
#[derive(Drop)]
pub(crate) struct End {
    /// The number of the connection at the server.
    peer: usize,
    pub(crate) conditions: Conditions,
    /// The lowest bit of the IDs of streams that are opened here.
    pub(crate) own: u64,
    pub(crate) bidirectional: Opened,
    pub(crate) unidirectional: Opened,
    /// The streams of which one half is over.
    pub(crate) halves: BTreeMap<u64, Halves>,
    /// How many more bytes may be sent on each stream, if less than at first, and on all.
    pub(crate) windows: BTreeMap<u64, usize>,
    pub(crate) window: usize,
    /// The streams whose windows are closed.
    pub(crate) blocked: BTreeSet<u64>,
    /// The streams that the peer was asked to stop.
    pub(crate) stopped: BTreeSet<u64>,
    /// Whether the connection is closed.
    pub(crate) is_closed: bool,
}

impl End {
    /// Creates an end that sent nothing. `own` is the lowest bit of the IDs of its streams.
    pub(crate) fn new(alloc: Global, peer: usize, own: u64, conditions: Conditions) -> Self {
        let opened = Opened {
            next: own,
            left: conditions.max_streams,
            is_blocked: false,
        };
        End {
            peer,
            conditions,
            own,
            bidirectional: opened,
            unidirectional: Opened {
                next: own.saturating_add(UNIDIRECTIONAL),
                ..opened
            },
            halves: BTreeMap::new(alloc),
            windows: BTreeMap::new(alloc),
            window: conditions.connection_window,
            blocked: BTreeSet::new(alloc),
            stopped: BTreeSet::new(alloc),
            is_closed: false,
        }
    }

    /// Gives an input to the connection, and its events to the handler. Returns how many bytes may be credited, and
    /// whether there was an event.
    pub(crate) fn hear<H: Handler>(
        &self,
        handler: &mut H,
        on: &mut Connections,
        mut input: Input<'_>,
    ) -> Result<(usize, bool)> {
        let mut is_heard = false;
        for _event in 0..TURNS {
            let Some(event) = on.here().next_event(&mut input)? else {
                return Ok((input.credit(), is_heard));
            };
            is_heard = true;
            let id = event.stream;
            if let Err(error) = handler.event(on, event) {
                let side = if self.own == SERVER {
                    "server"
                } else {
                    "client"
                };
                bail!("connection {}, {side}, stream {id}: {error}", self.peer);
            }
        }
        bail!("the events of an input do not end");
    }

    /// Carries what the connection sends to the wire. Returns whether there was something, or something is delayed.
    pub(crate) fn send(
        &mut self,
        on: &mut Connection,
        wire: &mut Wire,
        chance: &mut Chance,
    ) -> Result<bool> {
        let outputs = self.send_outputs(on, wire, chance)?;
        let bytes = self.send_streams(on, wire, chance)?;
        let datagrams = self.send_datagrams(on, wire, chance)?;
        let delayed = self.bidirectional.is_delayed() || self.unidirectional.is_delayed();
        Ok(outputs || bytes || datagrams || delayed)
    }

    /// Does what QUIC is to do.
    fn send_outputs(
        &mut self,
        on: &mut Connection,
        wire: &mut Wire,
        chance: &mut Chance,
    ) -> Result<bool> {
        let mut any = false;
        for _output in 0..TURNS {
            let Some(output) = on.output() else {
                return Ok(any);
            };
            if self.is_closed {
                bail!("an output after the connection was closed");
            }
            if let Output::Open { id, kind } = output {
                if self.open(on, id, kind, chance)? {
                    any = true;
                }
                continue;
            }
            any = true;
            self.send_output(output, wire)?;
            on.output_taken()?;
        }
        bail!("the outputs do not end");
    }

    /// Returns what is opened of a kind.
    pub(crate) fn opened_of(&self, kind: StreamKind) -> Opened {
        match kind {
            StreamKind::Bidirectional => self.bidirectional,
            StreamKind::Unidirectional => self.unidirectional,
        }
    }

    /// Notes what is opened of a kind.
    pub(crate) fn set_opened(&mut self, kind: StreamKind, opened: Opened) {
        match kind {
            StreamKind::Bidirectional => self.bidirectional = opened,
            StreamKind::Unidirectional => self.unidirectional = opened,
        }
    }

    /// Opens a stream, if one of its kind may be opened now.
    fn open(
        &mut self,
        on: &mut Connection,
        id: u64,
        kind: StreamKind,
        chance: &mut Chance,
    ) -> Result<bool> {
        let mut opened = self.opened_of(kind);
        let next = opened.next;
        if next != id {
            bail!("stream {id} is opened in place of {next}");
        }
        if opened.is_blocked {
            bail!("stream {id} is opened though none may be");
        }
        if opened.left == 0 || chance.delays() {
            opened.is_blocked = true;
            self.set_opened(kind, opened);
            on.set_blocked(Scope::Kind(kind), true)?;
            return Ok(false);
        }
        opened.next = opened.next.saturating_add(4);
        opened.left = opened.left.saturating_sub(1);
        self.set_opened(kind, opened);
        on.opened(id)?;
        Ok(true)
    }

    /// Carries an output to the wire.
    fn send_output(&mut self, output: Output, wire: &mut Wire) -> Result<()> {
        match output {
            Output::Open { .. } => {}
            Output::Reset(id, code) => {
                self.check_open(id)?;
                wire.reset(id, code)?;
            }
            Output::StopSending(id, code) => {
                self.check_open(id)?;
                if self.stopped.contains(&id) {
                    bail!("stream {id} is stopped twice");
                }
                self.stopped.insert(id)?;
                wire.signals.push_back(Signal::Stop(id, code))?;
            }
            Output::Credit(id, len) => wire.credit(id, len)?,
            Output::Read(id, _) | Output::Prioritize(id, _) => self.check_open(id)?,
            Output::Close(code) => {
                self.is_closed = true;
                wire.closed = Some(code);
            }
        }
        Ok(())
    }

    /// Fails if a stream is one of this end that is not open.
    fn check_open(&self, id: u64) -> Result<()> {
        let next = match StreamKind::of(id) {
            StreamKind::Bidirectional => self.bidirectional.next,
            StreamKind::Unidirectional => self.unidirectional.next,
        };
        if id & SERVER == self.own && id >= next {
            bail!("stream {id} is not open");
        }
        Ok(())
    }

    /// Sends bytes of streams, as far as the windows allow.
    fn send_streams(
        &mut self,
        on: &mut Connection,
        wire: &mut Wire,
        chance: &mut Chance,
    ) -> Result<bool> {
        for turn in 0..TURNS {
            if self.is_closed || !self.send_piece(on, wire, chance)? {
                return Ok(turn > 0);
            }
            if chance.delays() {
                return Ok(true);
            }
        }
        bail!("the bytes to send do not end");
    }

    /// Sends a piece of a stream, or notes that it is blocked. Returns whether there was one.
    fn send_piece(
        &mut self,
        on: &mut Connection,
        wire: &mut Wire,
        chance: &mut Chance,
    ) -> Result<bool> {
        let Some(next) = on.next_send() else {
            return Ok(false);
        };
        let (id, fin) = (next.id, next.fin);
        let all = next.bytes.len().saturating_add(next.more.len());
        self.check_open(id)?;
        if all == 0 && !fin {
            bail!("nothing is to be sent on stream {id}");
        }
        let window = match self.windows.get(&id) {
            Some(window) => *window,
            None => self.conditions.stream_window,
        };
        let len = all.min(chance.piece()).min(window).min(self.window);
        if len == 0 && all > 0 {
            return self.block(on, id, window);
        }
        put(on, id, wire, len, fin && len == all)?;
        self.windows.insert(id, window.saturating_sub(len))?;
        self.window = self.window.saturating_sub(len);
        Ok(true)
    }

    /// Tells the connection that the window of a stream is closed. If that of all streams is, nothing is sent. Returns
    /// whether other streams may be sent from.
    fn block(&mut self, on: &mut Connection, id: u64, window: usize) -> Result<bool> {
        if window > 0 {
            return Ok(false);
        }
        if self.blocked.contains(&id) {
            bail!("stream {id} is to be sent though it is blocked");
        }
        self.blocked.insert(id)?;
        on.set_blocked(Scope::Stream(id), true)?;
        Ok(true)
    }

    /// Sends datagrams, of which some are lost.
    fn send_datagrams(
        &mut self,
        on: &mut Connection,
        wire: &mut Wire,
        chance: &mut Chance,
    ) -> Result<bool> {
        let mut any = false;
        for _datagram in 0..TURNS {
            if self.is_closed {
                return Ok(any);
            }
            let Some(bytes) = on.next_datagram() else {
                return Ok(any);
            };
            if chance.delays() {
                return Ok(true);
            }
            if bytes.len() > self.conditions.max_datagram {
                bail!("a datagram is too large: {}", bytes.len());
            }
            if !chance.loses() {
                wire.take_datagram(bytes)?;
            }
            on.datagram_sent()?;
            any = true;
        }
        bail!("the datagrams to send do not end");
    }
}

/// Sends so many bytes of a stream, and its end after them.
fn put(on: &mut Connection, id: u64, wire: &mut Wire, len: usize, fin: bool) -> Result<()> {
    if let Some(next) = on.next_send() {
        wire.send(id, next.bytes, next.more, len, fin)?;
    }
    on.sent(id, len)?;
    Ok(())
}
