//! What QUIC takes of the queue.
ghost use Rattle.std.specs.Prelude.{◌≡◌, ◌==◌, ◌<◌, ◌+◌, ◌-◌, ◌↔◌, [], take, drop, not, false, true, length, OnOk, OnErr, IsErr, MatchBool, MatchOption};
ghost use Rattle.vesgrauf_queue.specs.declared.ending.Ending.TheVariants.{Open, Resetting};
ghost use Rattle.vesgrauf_queue.specs.Pieces.{shown, after_shown};
ghost use Rattle.vesgrauf_queue.specs.State.{waiting, counted as counted_is, is_full as is_full_is, IsIdle, Shows, IsNotDue, HasNoReset};
ghost use Rattle.vesgrauf_queue.specs.Steps.{Does, Refuses, Puts, PutsReset, Acknowledges, Tells, ends_with};

use crate::writing::Writing;
use vesgrauf_queue::ending::Reset;
use vesgrauf_queue::error::NotShown;
use vesgrauf_queue::next::Next;
use vesgrauf_queue::spares::Spares;

impl Writing {
    /// Returns what QUIC is to take next, as [`Queue::next`](vesgrauf_queue::queue::Queue::next) does.
    pub fn next(&self) -> Option<Next<'_>>
        ensures { MatchOption result (IsIdle self.now.queue)
            (λ n. Shows self.now.queue n.bytes.now n.more.now n.fin) }
    {
        self.queue.next()
    }

    /// QUIC took the first `len` of the bytes that [`next`](Self::next) shows, and the end with the last of them.
    ///
    /// # Errors
    ///
    /// If so many bytes are not shown: nothing changes then.
    pub fn sent(&mut self, spares: &mut Spares, len: usize) -> Result<(), NotShown>
        ensures half { self.new.half ≡ self.old.half }
        ensures ok { OnOk result (Does (Puts (take len (waiting self.old.queue))
            (ends_with self.old.queue (drop len (waiting self.old.queue)))) self.old.queue self.new.queue) }
        ensures pieces { OnOk result (self.new.queue.pieces ≡ after_shown len self.old.queue.pieces) }
        ensures refused { IsErr result ↔ (length (shown self.old.queue.pieces) < len) }
        ensures err { OnErr result (self.new ≡ self.old) }
    {
        self.queue.sent(spares, len)
    }

    /// The peer has the next `len` of the bytes that QUIC took.
    ///
    /// # Errors
    ///
    /// If QUIC did not take so many: nothing changes then.
    pub fn acked(&mut self, spares: &mut Spares, len: u64) -> Result<(), NotShown>
        ensures half { self.new.half ≡ self.old.half }
        ensures ok { OnOk result (Does (Acknowledges len) self.old.queue self.new.queue) }
        ensures refused { IsErr result ↔ (self.old.queue.put < self.old.queue.acked + len) }
        ensures err { OnErr result (self.new ≡ self.old) }
    {
        self.queue.acked(spares, len)
    }

    /// The peer has all bytes that QUIC took.
    pub fn acked_all(&mut self, spares: &mut Spares)
        ensures half { self.new.half ≡ self.old.half }
        ensures queue { Does (Acknowledges (self.old.queue.put - self.old.queue.acked)) self.old.queue self.new.queue }
    {
        self.queue.acked_all(spares)
    }

    /// Returns the reset that QUIC is to take, once it took the bytes that are reliable.
    pub fn next_reset(&self) -> Option<Reset>
        ensures { MatchOption result (HasNoReset self.now.queue)
            (λ r. (self.now.queue.ending ≡ Resetting r) × (waiting self.now.queue ≡ [])) }
    {
        self.queue.next_reset()
    }

    /// QUIC took the reset.
    ///
    /// # Errors
    ///
    /// If [`next_reset`](Self::next_reset) returns none: nothing changes then.
    pub fn reset_sent(&mut self) -> Result<(), NotShown>
        ensures half { self.new.half ≡ self.old.half }
        ensures ok { OnOk result ((r : Reset) × Does (PutsReset r.code r.size) self.old.queue self.new.queue) }
        ensures refused { IsErr result → HasNoReset self.old.queue }
        ensures err { OnErr result (self.new ≡ self.old) }
    {
        self.queue.reset_sent()
    }

    /// Returns whether a `Writable` is owed and at least half of the mark is free, of a stream that was neither
    /// finished nor reset. It is not owed any more then.
    pub fn take_writable(&mut self) -> bool
        ensures half { self.new.half ≡ self.old.half }
        ensures step { MatchBool result (Does Tells self.old.queue self.new.queue)
            ((self.new ≡ self.old) × IsNotDue self.old.queue) }
    {
        self.queue.take_writable()
    }

    /// Returns false if the queue is full, of a stream that was neither finished nor reset: a `Writable` is owed then.
    pub fn admits(&mut self) -> bool
        ensures half { self.new.half ≡ self.old.half }
        ensures refused { (result ≡ false)
            ↔ ((self.old.queue.ending ≡ Open) × (is_full_is self.old.queue ≡ true)) }
        ensures step { MatchBool result (self.new ≡ self.old) (Does Refuses self.old.queue self.new.queue) }
    {
        self.queue.admits()
    }

    /// Returns whether as many bytes count as the mark says, and at least one.
    pub fn is_full(&self) -> bool
        ensures { result ≡ is_full_is self.now.queue }
    {
        self.queue.is_full()
    }

    /// Returns how many bytes count to the mark.
    pub fn counted(&self) -> u64
        ensures { result ≡ counted_is self.now.queue }
    {
        self.queue.counted()
    }

    /// Returns whether bytes wait for QUIC.
    pub fn has_waiting(&self) -> bool
        ensures { result ≡ not (length (waiting self.now.queue) == 0) }
    {
        self.queue.has_waiting()
    }
}
