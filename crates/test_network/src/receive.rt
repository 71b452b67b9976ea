//! What arrives at an end.
use crate::conditions::Chance;
use crate::connections::Connections;
use crate::end::{End, Halves, SERVER};
use crate::handler::Handler;
use crate::wire::{Piece, Signal, Wire};
use anyhow::Result;
use vesgrauf::connection::Connection;
use vesgrauf::input::Input;
use vesgrauf::output::{Scope, StreamKind};

impl End {
    /// Takes some of what is under way on `wire`, and answers on `back`. After the connection is closed, nothing is
    /// taken.
    pub(crate) fn receive<H: Handler>(
        &mut self,
        handler: &mut H,
        on: &mut Connections,
        wire: &mut Wire,
        back: &mut Wire,
        chance: &mut Chance,
    ) -> Result<()> {
        if self.is_closed {
            return Ok(wire.discard());
        }
        self.receive_signals(handler, on, wire, back, chance)?;
        for id in wire.ids()?.iter() {
            if !chance.delays() {
                self.receive_stream(handler, on, *id, wire, back, chance)?;
            }
        }
        self.receive_datagrams(handler, on, wire, chance)?;
        self.receive_close(handler, on, wire)
    }

    /// Takes what the QUIC of the peer says, in order.
    fn receive_signals<H: Handler>(
        &mut self,
        handler: &mut H,
        on: &mut Connections,
        wire: &mut Wire,
        back: &mut Wire,
        chance: &mut Chance,
    ) -> Result<()> {
        for _signal in 0..chance.some_of(wire.signals.len()) {
            if let Some(signal) = wire.signals.pop_front() {
                self.receive_signal(handler, on, signal, back)?;
            }
        }
        Ok(())
    }

    /// Takes a piece of a stream, and acknowledges it.
    fn receive_stream<H: Handler>(
        &mut self,
        handler: &mut H,
        on: &mut Connections,
        id: u64,
        wire: &mut Wire,
        back: &mut Wire,
        chance: &mut Chance,
    ) -> Result<()> {
        let Some(piece) = wire.deliver(id, chance)? else {
            return Ok(());
        };
        let is_over = match piece {
            Piece::Bytes(bytes, fin) => {
                let input = Input::stream(id, bytes.as_slice(), fin);
                let (credit, _) = self.hear(handler, on, input)?;
                back.credit(id, credit)?;
                back.signals
                    .push_back(Signal::Acked(id, bytes.len() as u64))?;
                fin
            }
            Piece::Reset(code, lost) => {
                self.hear(handler, on, Input::stream_reset(id, code))?;
                back.signals.push_back(Signal::Credit(lost))?;
                true
            }
        };
        if is_over {
            back.signals.push_back(Signal::AckedEnd(id))?;
            self.end_received(handler, on, id, back)?;
        }
        Ok(())
    }

    /// Takes datagrams.
    fn receive_datagrams<H: Handler>(
        &mut self,
        handler: &mut H,
        on: &mut Connections,
        wire: &mut Wire,
        chance: &mut Chance,
    ) -> Result<()> {
        for _datagram in 0..chance.some_of(wire.datagrams.len()) {
            if let Some(datagram) = wire.datagrams.pop_front() {
                self.hear(handler, on, Input::datagram(datagram.as_slice()))?;
            }
        }
        Ok(())
    }

    /// Takes the end of the connection, once nothing else is under way.
    fn receive_close<H: Handler>(
        &mut self,
        handler: &mut H,
        on: &mut Connections,
        wire: &mut Wire,
    ) -> Result<()> {
        let Some(code) = wire.closed else {
            return Ok(());
        };
        if wire.is_quiet()? {
            wire.closed = None;
            self.is_closed = true;
            self.hear(handler, on, Input::connection_closed(code))?;
        }
        Ok(())
    }

    /// Takes what the QUIC of the peer says.
    fn receive_signal<H: Handler>(
        &mut self,
        handler: &mut H,
        on: &mut Connections,
        signal: Signal,
        back: &mut Wire,
    ) -> Result<()> {
        match signal {
            Signal::Stop(id, code) => {
                self.hear(handler, on, Input::stop_sending(id, code))?;
            }
            Signal::StreamCredit(id, len) => self.open_window(on.here(), id, len)?,
            Signal::Credit(len) => self.window = self.window.saturating_add(len),
            Signal::MayOpen(kind) => self.allow(on.here(), kind)?,
            Signal::Acked(id, len) => {
                if self.conditions.acks {
                    on.here().acked(id, len)?;
                }
            }
            Signal::AckedEnd(id) => self.end_sent(handler, on, id, back)?,
        }
        Ok(())
    }

    /// Opens the window of a stream.
    fn open_window(&mut self, on: &mut Connection, id: u64, len: usize) -> Result<()> {
        if let Some(window) = self.windows.get_mut(&id) {
            *window = window.saturating_add(len);
        }
        if self.blocked.contains(&id) {
            self.blocked.remove(&id);
            on.set_blocked(Scope::Stream(id), false)?;
        }
        Ok(())
    }

    /// Allows one more stream of a kind.
    fn allow(&mut self, on: &mut Connection, kind: StreamKind) -> Result<()> {
        let mut opened = self.opened_of(kind);
        opened.left = opened.left.saturating_add(1);
        self.set_opened(kind, opened);
        self.retry(on)
    }

    /// Tells the connection that streams may be opened that were delayed.
    pub(crate) fn retry(&mut self, on: &mut Connection) -> Result<()> {
        if self.bidirectional.is_delayed() {
            self.bidirectional.is_blocked = false;
            on.set_blocked(Scope::Kind(StreamKind::Bidirectional), false)?;
        }
        if self.unidirectional.is_delayed() {
            self.unidirectional.is_blocked = false;
            on.set_blocked(Scope::Kind(StreamKind::Unidirectional), false)?;
        }
        Ok(())
    }

    /// Notes that the peer has all of the own half of a stream.
    fn end_sent<H: Handler>(
        &mut self,
        handler: &mut H,
        on: &mut Connections,
        id: u64,
        back: &mut Wire,
    ) -> Result<()> {
        let mut halves = self.halves_of(id);
        halves.sent = true;
        self.close_stream(handler, on, id, halves, back)
    }

    /// Notes that all of the peer's half of a stream came.
    fn end_received<H: Handler>(
        &mut self,
        handler: &mut H,
        on: &mut Connections,
        id: u64,
        back: &mut Wire,
    ) -> Result<()> {
        let mut halves = self.halves_of(id);
        halves.received = true;
        self.close_stream(handler, on, id, halves, back)
    }

    /// Returns which halves of a stream are over. A stream in one direction has one half.
    fn halves_of(&self, id: u64) -> Halves {
        let is_own = id & SERVER == self.own;
        let is_single = StreamKind::of(id) == StreamKind::Unidirectional;
        match self.halves.get(&id) {
            Some(halves) => *halves,
            None => Halves {
                sent: is_single && !is_own,
                received: is_single && is_own,
            },
        }
    }

    /// Reports that a stream is closed, if both of its halves are over. The peer may then open one more.
    fn close_stream<H: Handler>(
        &mut self,
        handler: &mut H,
        on: &mut Connections,
        id: u64,
        halves: Halves,
        back: &mut Wire,
    ) -> Result<()> {
        if !halves.sent || !halves.received {
            self.halves.insert(id, halves)?;
            return Ok(());
        }
        self.halves.remove(&id);
        self.windows.remove(&id);
        if id & SERVER != self.own {
            back.signals.push_back(Signal::MayOpen(StreamKind::of(id)))?;
        }
        self.hear(handler, on, Input::stream_closed(id))?;
        Ok(())
    }
}
