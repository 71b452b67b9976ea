//! The own half of one stream: what may be sent on it, and what is queued.
//!
//! 1. A half is [`idle`](Writing::idle) until a [`request`](Writing::request) is sent or
//!    [`asked`](Writing::ask) for an answer, or [`raw`](Writing::raw) on a stream without messages.
//! 2. [`respond`](Writing::respond), [`send`](Writing::send) and [`trailers`](Writing::trailers) queue a message, and
//!    [`finish`](Writing::finish) or [`reset`](Writing::reset) ends it. What may not be sent is refused.
//! 3. [`next`](Writing::next) shows what QUIC is to take, and [`sent`](Writing::sent) says how much it took.
mod content;
mod ends;
pub(crate) mod half;
mod headers;
mod quic;
mod session;

use crate::error::NotSent;
use crate::writing::half::Half;
use std::alloc::Global;
use vesgrauf_queue::config::QueueConfig;
use vesgrauf_queue::ending::Ending;
use vesgrauf_queue::queue::Queue;
use vesgrauf_queue::spares::Spares;
use wtp_messages::response::Asked;
use wtp_sending::message::Sending;

/// The own half of one stream: what may be sent on it, and what is queued.
#[derive(Drop)]
pub struct Writing {
    /// What may be sent.
    half: Half,
    /// What is queued.
    queue: Queue,
}

impl Writing {
    ghost use Rattle.std.specs.Prelude.{◌≡◌, ◌⊎◌, true, false, not, Ok, Err, MatchBool, MatchResult};
    ghost use Rattle.vesgrauf_queue.specs.State.{is_reset};
    ghost use Rattle.vesgrauf_queue.specs.Steps.{IsNew, Does, Resets, Finishes, Leads};
    ghost use Rattle.vesgrauf_stream.specs.declared.writing.half.Half.TheVariants as half;
    ghost use Rattle.vesgrauf_stream.specs.Writing.{asked_half, raw_half, connected, with_half, is_none, is_open, is_done as is_done_is, open_half, message_at, end_if};

    /// Creates that of a unidirectional stream of the peer, on which nothing is sent.
    pub fn none(alloc: Global, config: QueueConfig) -> Self
        ensures half { result.half ≡ half.None }
        ensures queue { IsNew config result.queue }
    {
        Writing::new(alloc, config, Half::None)
    }

    /// Creates that of a bidirectional stream on which no message began: of a client's at a server, or of an own one.
    pub fn idle(alloc: Global, config: QueueConfig) -> Self
        ensures half { result.half ≡ half.Idle }
        ensures queue { IsNew config result.queue }
    {
        Writing::new(alloc, config, Half::Idle)
    }

    /// Creates that of a stream without messages: one of a session, or one that the connection itself uses.
    pub fn raw(alloc: Global, config: QueueConfig) -> Self
        ensures half { result.half ≡ half.Raw }
        ensures queue { IsNew config result.queue }
    {
        Writing::new(alloc, config, Half::Raw)
    }

    fn new(alloc: Global, config: QueueConfig, half: Half) -> Self
        ensures half { result.half ≡ half }
        ensures queue { IsNew config result.queue }
    {
        Writing {
            half,
            queue: Queue::new(alloc, config),
        }
    }

    /// Takes a request that asks for this, at a server, if no message began.
    pub fn ask(&mut self, asked: Asked)
        ensures { self.new ≡ with_half (asked_half asked self.old.half) self.old }
    {
        if let Half::Idle = self.half {
            self.half = Half::Asked(asked);
        }
    }

    /// Makes the stream one of a session, if no message began.
    pub fn belong(&mut self)
        ensures { self.new ≡ with_half (raw_half self.old.half) self.old }
    {
        if let Half::Idle = self.half {
            self.half = Half::Raw;
        }
    }

    /// Takes a 2xx response, at a client: it opens a tunnel or a session if the request was a CONNECT.
    pub fn connect(&mut self)
        ensures { self.new ≡ with_half (connected self.old.half) self.old }
    {
        if let Half::Message(sending) = &mut self.half {
            let _opened = sending.connected();
        }
    }

    /// Resets the stream with an error code. What waits is dropped, but for the first `size` bytes of the stream.
    /// Returns false, and nothing changes, if it was reset, or if there is no own half.
    pub fn reset(&mut self, spares: &mut Spares, code: u64, size: u64) -> bool
        ensures half { self.new.half ≡ self.old.half }
        ensures queue { MatchBool result
            ((is_none self.old.half ≡ false) × Does (Resets code size) self.old.queue self.new.queue)
            ((self.new ≡ self.old)
            × ((is_none self.old.half ≡ true) ⊎ (is_reset self.old.queue.ending ≡ true))) }
    {
        if let Half::None = self.half {
            return false;
        }
        self.queue.reset(spares, code, size)
    }

    /// Returns whether the stream was finished or reset by a call.
    pub fn is_ended(&self) -> bool
        ensures { result ≡ not (is_open self.now.queue.ending) }
    {
        !matches!(self.queue.ending(), Ending::Open)
    }

    /// Returns whether nothing is to be done for this half any more: there is none, or QUIC took the end or the reset
    /// and, if bytes are kept or count until then, all that it took is acknowledged.
    pub fn is_done(&self) -> bool
        ensures { result ≡ is_done_is self.now }
    {
        matches!(self.half, Half::None) || self.queue.is_done()
    }

    // Checks that something may be sent.
    fn check(&self) -> Result<(), NotSent>
        ensures { MatchResult result (λ u. open_half self.now ≡ Ok self.now.half)
            (λ e. open_half self.now ≡ Err e) }
    {
        if self.half.is_idle() {
            return Err(NotSent::None);
        }
        if self.is_ended() {
            return Err(NotSent::Over);
        }
        Ok(())
    }

    // Returns the message, if something may be sent.
    fn message(&self) -> Result<Sending, NotSent>
        ensures { result ≡ message_at self.now }
    {
        self.check()?;
        self.half.message()
    }

    // Takes the half after bytes that were queued, and maybe ends the stream.
    fn take(&mut self, half: Half, fin: bool)
        requires { is_open self.old.queue.ending ≡ true }
        ensures half { self.new.half ≡ half }
        ensures queue { Leads (end_if fin) self.old.queue self.new.queue }
    {
        self.half = half;
        if fin {
            let _finished = self.queue.finish();
        }
    }
}
