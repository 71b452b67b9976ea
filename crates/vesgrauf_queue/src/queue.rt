//! The queue of one stream.
use crate::blocks::Blocks;
use crate::config::QueueConfig;
use crate::ending::{Ending, Reset};
use crate::error::{NotQueued, NotShown, NotTaken};
use crate::next::Next;
use crate::spares::Spares;
use std::alloc::Global;
use std::marker::Model;

/// How many bytes a stream may have (RFC 9000, section 19.8).
const MAX_LEN: u64 = 4_611_686_018_427_387_903;

/// What is to be sent on one stream, until QUIC takes it, or until it is acknowledged.
#[derive(Drop)]
pub struct Queue {
    /// The bytes.
    blocks: Blocks,
    /// How many bytes wait.
    waits: usize,
    /// How many bytes QUIC took.
    put: u64,
    /// How many of them are acknowledged.
    acked: u64,
    /// How the stream ends.
    ending: Ending,
    /// Whether a `Writable` is owed.
    owed: bool,
    /// The bounds.
    config: QueueConfig,
}

impl Model for Queue {
    ghost use Rattle.vesgrauf_queue.specs.State.{State};

    ghost Value = { State };

    ghost use Rattle.vesgrauf_queue.specs.State.{IsCounted};
    ghost use Rattle.vesgrauf_queue.specs.Blocks.{pieces, kept};

    ghost view = { λ q. record { pieces = pieces q.blocks; kept = kept q.blocks; put = q.put; acked = q.acked; ending = q.ending; owed = q.owed; config = q.config } };

    ghost invariant = { λ q. IsCounted (pieces q.blocks) (kept q.blocks) q.waits q.put q.acked q.config };
}

impl Queue {
    ghost use Rattle.std.specs.Prelude.{◌≡◌, ◌≢◌, [], drop, ◌<◌, ◌≤◌, ◌+◌, ◌-◌, ◌^◌, ◌↔◌, ◌++◌, ◌&&◌, ◌==◌, length, take, not, true, false, IfOk, OnOk, OnErr, IfErr, IsErr, IsTrue, MatchBool, MatchOption};
    ghost use Rattle.vesgrauf_queue.specs.Pieces.{Adds, AddsBoth, IsStartOf, shown, after_shown};
    ghost use Rattle.vesgrauf_queue.specs.State.{State, waiting, counted as counted_is, is_full as is_full_is, is_done as is_done_is, is_half_free, is_reset, IsIdle, Shows, IsNotDue, HasNoReset, CanQueue, IsWhyNot, IsWhyNever};
    ghost use Rattle.vesgrauf_queue.specs.Steps.{IsNew, Does, Queues, Refuses, Finishes, Resets, Puts, PutsReset, Acknowledges, Tells, ends_with};

    /// Creates the queue of a stream, of which nothing is to be sent. Nothing is allocated.
    pub fn new(alloc: Global, config: QueueConfig) -> Self
        ensures { IsNew config result }
    {
        Queue {
            blocks: Blocks::new(alloc),
            waits: 0,
            put: 0,
            acked: 0,
            ending: Ending::Open,
            owed: false,
            config,
        }
    }

    /// Returns how many bytes count to the mark: those that wait, and with `bound_by_acked` those that are not
    /// acknowledged.
    pub fn counted(&self) -> u64
        ensures { result ≡ counted_is self.now }
    {
        if self.config.bound_by_acked {
            self.waits as u64 + (self.put - self.acked)
        } else {
            self.waits as u64
        }
    }

    /// Returns whether as many bytes count as the mark says, and at least one.
    pub fn is_full(&self) -> bool
        ensures { result ≡ is_full_is self.now }
    {
        let counted = self.counted();
        counted > 0 && counted >= self.config.mark as u64
    }

    /// Returns how the stream ends.
    pub fn ending(&self) -> Ending
        ensures { result ≡ self.now.ending }
    {
        self.ending
    }

    /// Returns whether bytes wait.
    pub fn has_waiting(&self) -> bool
        ensures { result ≡ not (length (waiting self.now) == 0) }
    {
        self.waits > 0
    }

    /// Returns whether QUIC took the end or the reset, and with `keep_until_acked` or `bound_by_acked` all bytes
    /// that it took are acknowledged.
    pub fn is_done(&self) -> bool
        ensures { result ≡ is_done_is self.now }
    {
        let kept = self.config.keep_until_acked || self.config.bound_by_acked;
        matches!(self.ending, Ending::Finished | Ending::WasReset(_))
            && (!kept || self.put == self.acked)
    }

    // Returns whether so many bytes may be queued.
    fn check(&self, len: usize) -> Result<(), NotQueued>
        ensures ok { OnOk result (CanQueue self.now len) }
        ensures err { IfErr result (IsWhyNever self.now len) }
    {
        if !matches!(self.ending, Ending::Open) {
            return Err(NotQueued::Over);
        }
        if MAX_LEN - self.put - (self.waits as u64) < len as u64 {
            return Err(NotQueued::TooLong);
        }
        Ok(())
    }

    /// Queues a copy of a head and of bytes after it, all in one slice, full or not. Returns whether there is room
    /// after them; if not, a `Writable` is owed.
    ///
    /// # Errors
    ///
    /// `Over` if the stream was finished or reset. If not, `TooLong` if it would have more than 2^62 - 1 bytes. If not,
    /// `Memory` if memory is refused. Nothing changes then.
    #[tactic(auto, using(crate::proofs::QueueLemmas::queue_steps))]
    pub fn push(
        &mut self,
        spares: &mut Spares,
        head: &[u8],
        bytes: &[u8],
    ) -> Result<bool, NotQueued>
        ensures queued { IfOk result (λ room. Does (Queues (head.now ++ bytes.now) room) self.old self.new) }
        ensures together { OnOk result (Adds self.old.pieces (head.now ++ bytes.now) self.new.pieces) }
        ensures err { IfErr result (λ why. IsWhyNot self.old (length head.now + length bytes.now) why × (self.new ≡ self.old)) }
        ensures ok { OnOk result (CanQueue self.old (length head.now + length bytes.now)) }
    {
        let len = head.len() + bytes.len();
        self.check(len)?;
        match self.blocks.push(spares, head, bytes) {
            Ok(()) => {
                self.waits += len;
                let room = !self.is_full();
                self.owed |= !room;
                Ok(room)
            }
            Err(_) => Err(NotQueued::Memory),
        }
    }

    /// Queues a copy of a head, and bytes after it, full or not. Each lies in one slice, and 4,096 bytes or more are not
    /// copied. Returns whether there is room after them; if not, a `Writable` is owed.
    ///
    /// # Errors
    ///
    /// As [`push`](Self::push), with the bytes. Nothing changes then.
    #[tactic(auto, using(crate::proofs::QueueLemmas::queue_steps))]
    pub fn push_owned(
        &mut self,
        spares: &mut Spares,
        head: &[u8],
        bytes: Vec<u8>,
    ) -> Result<bool, NotTaken>
        ensures queued { IfOk result (λ room. Does (Queues (head.now ++ bytes.items) room) self.old self.new) }
        ensures together { OnOk result (AddsBoth self.old.pieces head.now bytes.items self.new.pieces) }
        ensures err { IfErr result (λ e. IsWhyNot self.old (length head.now + length bytes.items) e.why
            × (e.bytes ≡ bytes) × (self.new ≡ self.old)) }
        ensures ok { OnOk result (CanQueue self.old (length head.now + length bytes.items)) }
    {
        let len = head.len() + bytes.len();
        if let Err(why) = self.check(len) {
            return Err(NotTaken { why, bytes });
        }
        match self.blocks.push_whole(spares, head, bytes) {
            Ok(()) => {
                self.waits += len;
                let room = !self.is_full();
                self.owed |= !room;
                Ok(room)
            }
            Err(bytes) => Err(NotTaken {
                why: NotQueued::Memory,
                bytes,
            }),
        }
    }

    /// Returns false if the queue is full, of a stream that was neither finished nor reset: a `Writable` is owed then.
    /// Ask it before a call that may be refused; [`push`](Self::push) itself takes bytes of any number.
    pub fn admits(&mut self) -> bool
        ensures refused { (result ≡ false) ↔ ((self.old.ending ≡ Ending.Open) × (is_full_is self.old ≡ true)) }
        ensures step { MatchBool result (self.new ≡ self.old) (Does Refuses self.old self.new) }
    {
        if !matches!(self.ending, Ending::Open) || !self.is_full() {
            return true;
        }
        self.owed = true;
        false
    }

    /// Returns whether a `Writable` is owed and at least half of the mark is free, of a stream that was neither finished
    /// nor reset. It is not owed any more then.
    pub fn take_writable(&mut self) -> bool
        ensures { MatchBool result (Does Tells self.old self.new) ((self.new ≡ self.old) × IsNotDue self.old) }
    {
        if !self.owed || !matches!(self.ending, Ending::Open) {
            return false;
        }
        let mark = self.config.mark as u64;
        if self.counted() > mark / 2 {
            return false;
        }
        self.owed = false;
        true
    }

    /// Ends the stream after what is queued. Returns false, and nothing changes, if it was finished or reset.
    pub fn finish(&mut self) -> bool
        ensures { MatchBool result (Does Finishes self.old self.new)
            ((self.new ≡ self.old) × (self.old.ending ≢ Ending.Open)) }
    {
        if !matches!(self.ending, Ending::Open) {
            return false;
        }
        self.ending = Ending::Finishing;
        true
    }

    /// Resets the stream with an error code. What waits is dropped, but for the first `size` bytes of the stream. What
    /// QUIC took is kept as before. Returns false, and nothing changes, if the stream was reset.
    #[tactic(auto, using(crate::proofs::QueueLemmas::queue_steps))]
    pub fn reset(&mut self, spares: &mut Spares, code: u64, size: u64) -> bool
        ensures { MatchBool result (Does (Resets code size) self.old self.new)
            ((self.new ≡ self.old) × (is_reset self.old.ending ≡ true)) }
    {
        if matches!(self.ending, Ending::Resetting(_) | Ending::WasReset(_)) {
            return false;
        }
        let waits = self.waits as u64;
        let still = size.saturating_sub(self.put).min(waits) as usize;
        self.blocks.cut(spares, self.waits - still);
        self.waits = still;
        self.ending = Ending::Resetting(Reset {
            code,
            size: size.min(self.put + waits),
        });
        true
    }

    /// Returns what QUIC is to take next, and whether the end follows, or `None` if nothing is to be put. It is the same
    /// until [`sent`](Self::sent).
    #[tactic(auto, using(crate::proofs::QueueLemmas::queue_steps))]
    pub fn next(&self) -> Option<Next<'_>>
        ensures { MatchOption result (IsIdle self.now) (λ n. Shows self.now n.bytes.now n.more.now n.fin) }
    {
        let bytes = self.blocks.shown_first();
        let more = self.blocks.shown_second();
        let all = bytes.len() + more.len() == self.waits;
        let fin = all && matches!(self.ending, Ending::Finishing);
        if bytes.is_empty() && !fin {
            return None;
        }
        Some(Next { bytes, more, fin })
    }

    /// QUIC took the first `len` of the bytes that [`next`](Self::next) shows, and the end with the last of them. Call it
    /// with 0 only if the end was shown alone, and QUIC took it.
    ///
    /// # Errors
    ///
    /// If so many bytes are not shown: nothing changes then.
    #[tactic(auto, using(crate::proofs::QueueLemmas::queue_steps))]
    pub fn sent(&mut self, spares: &mut Spares, len: usize) -> Result<(), NotShown>
        ensures ok { OnOk result (Does (Puts (take len (waiting self.old)) (ends_with self.old (drop len (waiting self.old)))) self.old self.new) }
        ensures pieces { OnOk result (self.new.pieces ≡ after_shown len self.old.pieces) }
        ensures refused { IsErr result ↔ (length (shown self.old.pieces) < len) }
        ensures err { OnErr result (self.new ≡ self.old) }
    {
        let shown = self.blocks.shown_first().len() + self.blocks.shown_second().len();
        if shown < len {
            return Err(NotShown);
        }
        self.blocks
            .hand_over(spares, len, self.config.keep_until_acked);
        self.waits -= len;
        self.put += len as u64;
        self.ending = self.ending.after(self.waits);
        Ok(())
    }

    /// The peer has the next `len` of the bytes that QUIC took. If they are kept, their blocks are freed.
    ///
    /// # Errors
    ///
    /// If QUIC did not take so many: nothing changes then.
    #[tactic(auto, using(crate::proofs::QueueLemmas::queue_steps))]
    pub fn acked(&mut self, spares: &mut Spares, len: u64) -> Result<(), NotShown>
        ensures ok { OnOk result (Does (Acknowledges len) self.old self.new) }
        ensures refused { IsErr result ↔ (self.old.put < self.old.acked + len) }
        ensures err { OnErr result (self.new ≡ self.old) }
    {
        if self.put - self.acked < len {
            return Err(NotShown);
        }
        if self.config.keep_until_acked {
            self.blocks.free(spares, len as usize);
        }
        self.acked += len;
        Ok(())
    }

    /// The peer has all bytes that QUIC took. If they are kept, their blocks are freed.
    #[tactic(auto, using(crate::proofs::QueueLemmas::queue_steps))]
    pub fn acked_all(&mut self, spares: &mut Spares)
        ensures { Does (Acknowledges (self.old.put - self.old.acked)) self.old self.new }
    {
        let len = self.put - self.acked;
        if self.config.keep_until_acked {
            self.blocks.free(spares, len as usize);
        }
        self.acked = self.put;
    }

    /// Returns the first of the bytes that are kept, as far as they lie in one slice. They stay there until they are
    /// acknowledged.
    pub fn first_kept(&self) -> &[u8]
        ensures { IsStartOf self.now.kept result.now }
    {
        self.blocks.first_kept()
    }

    /// Returns the reset that QUIC is to take, once it took the bytes that are reliable, or `None` if there is none. It
    /// is the same until [`reset_sent`](Self::reset_sent).
    pub fn next_reset(&self) -> Option<Reset>
        ensures { MatchOption result (HasNoReset self.now) (λ r. (self.now.ending ≡ Ending.Resetting r) × (waiting self.now ≡ [])) }
    {
        match self.ending {
            Ending::Resetting(reset) if self.waits == 0 => Some(reset),
            _ => None,
        }
    }

    /// QUIC took the reset.
    ///
    /// # Errors
    ///
    /// If [`next_reset`](Self::next_reset) returns none: nothing changes then.
    pub fn reset_sent(&mut self) -> Result<(), NotShown>
        ensures ok { OnOk result ((r : Reset) × Does (PutsReset r.code r.size) self.old self.new) }
        ensures refused { IsErr result → HasNoReset self.old }
        ensures err { OnErr result (self.new ≡ self.old) }
    {
        match self.next_reset() {
            Some(reset) => {
                self.ending = Ending::WasReset(reset);
                Ok(())
            }
            None => Err(NotShown),
        }
    }
}
