//! Own halves of streams that QUIC has closed.
ghost use Rattle.std.specs.Prelude.{◌≡◌, ◌⊎◌, [], true, false};
ghost use Rattle.vesgrauf.specs.Own.{Over, own_at};
ghost use Rattle.vesgrauf.specs.Keeps.{Keeps};
ghost use Rattle.vesgrauf.specs.State.{stream_at, knows_of};

use crate::code::StreamCode;
use crate::connection::Connection;
use crate::event::{Event, EventKind};
use std::alloc::AllocError;
use vesgrauf_stream::writing::Writing;
use wtp_core::error::Code;

#[tactic(auto, using(crate::proofs::KeepsLemmas::keep))]
impl Connection {
    // QUIC has closed a stream: what is kept of the own half is freed. If its end was not taken, nor its reset, what waits is
    // lost: the program is told so, if it knows of the stream. Returns whether it was lost.
    pub(super) fn lose_half(&mut self, id: u64) -> Result<bool, AllocError>
        ensures keeps { Keeps [] self.old self.new }
    {
        if self.is_own_taken(id) {
            self.free_half(id);
            return Ok(false);
        }
        self.lose_waiting(id)
    }

    // Returns whether QUIC took the end of the own half of a stream.
    fn is_own_taken(&self, id: u64) -> bool {
        match self.streams.get(&id) {
            Some(entry) => entry.writing.is_finished() && !entry.has_more(),
            None => false,
        }
    }

    // Frees what is kept of the own half of a stream that QUIC has closed.
    #[tactic(auto, using(crate::proofs::KeepsLemmas::keep, crate::proofs::PlaceLemmas::ordered, crate::proofs::PlaceLemmas::ordered_step, crate::proofs::QueuedLemmas::more_acked))]
    fn free_half(&mut self, id: u64)
        ensures keeps { Keeps [] self.old self.new }
    {
        let Some(entry) = self.streams.get_mut(&id) else {
            return;
        };
        entry.is_closed = true;
        entry.writing.acked_all(&mut self.tools.spares);
    }

    // Frees the own half of a stream that QUIC has closed, of which QUIC did not take the end. Returns whether it was lost.
    fn lose_waiting(&mut self, id: u64) -> Result<bool, AllocError>
        ensures keeps { Keeps [] self.old self.new }
    {
        if self.is_own_out(id) {
            self.drop_own(id, false);
            return Ok(false);
        }
        if !self.knows(id) {
            self.drop_own(id, true);
            return Ok(true);
        }
        self.lose_told(id)?;
        Ok(true)
    }

    // Returns whether the own half of a stream was reset, or there is none.
    #[tactic(auto, using(crate::proofs::LostLemmas::own_out))]
    fn is_own_out(&self, id: u64) -> bool
        ensures { result ≡ true → own_at self.now.streams.entries id ≡ Over }
    {
        match self.streams.get(&id) {
            Some(entry) => entry.is_out(),
            None => true,
        }
    }

    // There is no own half of a stream any more.
    #[tactic(auto, using(crate::proofs::KeepsLemmas::keep, crate::proofs::PlaceLemmas::ordered_over, crate::proofs::QueuedLemmas::more_new))]
    fn drop_own(&mut self, id: u64, is_lost: bool)
        ensures keeps { (own_at self.old.streams.entries id ≡ Over) ⊎ (knows_of (stream_at self.old id) ≡ false)
            → Keeps [] self.old self.new }
    {
        let Some(entry) = self.streams.get_mut(&id) else {
            return;
        };
        entry.is_closed = true;
        entry.is_reset = entry.is_reset | is_lost;
        entry.writing = Writing::none(self.alloc, self.config.queue());
        self.ready.remove(id, entry.kind());
        self.full.remove(&id);
    }

    // The own half of a stream that the program knows of is lost: the program is told so.
    #[tactic(auto, using(crate::proofs::KeepsLemmas::keep, crate::proofs::KeepsLemmas::keeps_stopped, crate::proofs::PlaceLemmas::ordered_over, crate::proofs::QueuedLemmas::more_new))]
    fn lose_told(&mut self, id: u64) -> Result<(), AllocError>
        ensures keeps { Keeps [] self.old self.new }
    {
        let Some(lost) = self.streams.get_mut(&id) else {
            return Ok(());
        };
        if !lost.is_known() {
            return Ok(());
        }
        self.events.push_back(Event {
            stream: id,
            session: lost.session_shown(id),
            user: lost.user,
            kind: EventKind::Stopped(StreamCode::Http(Code::H3_REQUEST_CANCELLED)),
        })?;
        lost.is_closed = true;
        lost.is_reset = true;
        lost.writing = Writing::none(self.alloc, self.config.queue());
        self.ready.remove(id, lost.kind());
        self.full.remove(&id);
        Ok(())
    }
}
