//! The end of a connection in steps.
ghost use Rattle.std.specs.Prelude.{◌≡◌, ◌<◌, ◌≤◌, ℕ, [], Ok, None, IfSome, OnOk, MatchOption, true, false};
ghost use Rattle.vesgrauf.specs.State.{is_over, open_session, stream_at, EndsUnless};
ghost use Rattle.vesgrauf.specs.Leaving.{ShutsDown};
ghost use Rattle.vesgrauf.specs.Theirs.{Left};
ghost use Rattle.vesgrauf.specs.Order.{IsFirstOpen};
ghost use Rattle.vesgrauf.specs.declared.output.Shutdown.TheVariants as shutdown;
ghost use Rattle.vesgrauf.specs.Told.{GoesOn};
ghost use Rattle.vesgrauf.specs.Works.{WorksOn};

use crate::connection::Connection;
use crate::output::Shutdown;
use crate::refused::Refused;
use wtp_core::error::Code;

impl Connection {
    /// Returns the first session that is open and whose ID is this or above it, or `None`.
    #[tactic(auto, using(crate::proofs::OrderLemmas::none_at_start, crate::proofs::OrderLemmas::none_after, crate::proofs::OrderLemmas::first_open, crate::proofs::OrderLemmas::none_open, crate::proofs::OrderLemmas::none_left))]
    pub fn next_session(&self, from: u64) -> Option<u64>
        ensures open { IfSome result (λ id. open_session self.now id ≡ Ok tt) }
        ensures first { IsFirstOpen self.now from result }
    {
        let mut cursor = from;
        'streams: while let Some(id) = self.next_stream(cursor) {
            if self.check_session(id).is_ok() {
                return Some(id);
            }
            let Some(next) = id.checked_add(1) else {
                return None;
            };
            cursor = next;
        }
        None
    }

    // Returns the first stream whose ID is this or above it.
    fn next_stream(&self, from: u64) -> Option<u64>
        ensures { MatchOption result ((k : ℕ) → from ≤ k → stream_at self.now k ≡ None)
            (λ id. (from ≤ id) × ((k : ℕ) → from ≤ k → k < id → stream_at self.now k ≡ None)) }
    {
        match self.streams.next_from(from) {
            Some((id, _)) => Some(id),
            None => None,
        }
    }

    /// Ends the connection in steps, without losing a request where the peer allows. Call it at each tick of yours, about
    /// a round trip or a second, with the number of the tick, from 0, and that of the last one, which is 2 or more:
    ///
    /// - at the first the peer is asked for no new request ([`Notice`](Shutdown::Notice)), and to end its sessions soon;
    /// - at the next requests that come from then on are rejected ([`Final`](Shutdown::Final));
    /// - at the last one sessions that are left are closed, with code 0;
    /// - after the last one the connection is closed with H3_NO_ERROR, and what is left on it is dropped.
    ///
    /// It ends earlier where nothing is left: then nothing changes. A client asks its server for nothing: it calls
    /// [`shutdown`](Self::shutdown).
    ///
    /// # Errors
    ///
    /// `Memory`: call it again with the same numbers.
    #[tactic(auto, using(crate::proofs::ActLemmas::act, crate::proofs::ActLemmas::act_still, crate::proofs::ActLemmas::act_kept, crate::proofs::KeepsLemmas::kept, crate::proofs::StepLemmas::left_trans, crate::proofs::StepLemmas::left_itself))]
    pub fn wind_down(&mut self, tick: u32, last: u32) -> Result<(), Refused>
        ensures over { is_over self.old ≡ true → self.new ≡ self.old }
        ensures closed { last < tick → EndsUnless (is_over self.old) 0x100 self.old self.new }
        ensures leaves { is_over self.old ≡ false → tick ≡ 1 → 1 < last
            → OnOk result (ShutsDown shutdown.Final self.old self.new) }
        ensures rests { is_over self.old ≡ false → 1 < tick → tick < last → (result ≡ Ok tt) × (self.new ≡ self.old) }
        ensures left { Left self.old.streams.entries self.new.streams.entries }
        ensures config { self.new.config ≡ self.old.config }
        ensures goes { GoesOn [] self.old self.new }
        ensures works { WorksOn self.old self.new }
    {
        if self.ended.is_some() {
            return Ok(());
        }
        if tick > last {
            self.close(Code::H3_NO_ERROR);
            return Ok(());
        }
        self.announce_leave(tick)?;
        if tick == 0 || tick == last {
            return self.end_sessions(tick > 0);
        }
        Ok(())
    }

    // Says that the connection is to end: at the first tick that it will, and then which requests it answers.
    #[tactic(auto, using(crate::proofs::ActLemmas::act, crate::proofs::ActLemmas::act_still, crate::proofs::ActLemmas::act_kept, crate::proofs::KeepsLemmas::kept))]
    fn announce_leave(&mut self, tick: u32) -> Result<(), Refused>
        ensures goes { GoesOn [] self.old self.new }
        ensures streams { self.new.streams.entries ≡ self.old.streams.entries }
        ensures config { self.new.config ≡ self.old.config }
        ensures leaves { tick ≡ 1 → OnOk result (ShutsDown shutdown.Final self.old self.new) }
        ensures rests { 1 < tick → (result ≡ Ok tt) × (self.new ≡ self.old) }
        ensures works { WorksOn self.old self.new }
    {
        match tick {
            0 if !self.is_leaving => self.shutdown(Shutdown::Notice),
            1 => self.shutdown(Shutdown::Final),
            _ => Ok(()),
        }
    }

    // Asks the peer to end each session that is open, or closes it.
    #[tactic(auto, using(crate::proofs::ActLemmas::act, crate::proofs::ActLemmas::act_still, crate::proofs::ActLemmas::act_kept, crate::proofs::KeepsLemmas::kept, crate::proofs::StepLemmas::left_trans, crate::proofs::StepLemmas::left_itself))]
    fn end_sessions(&mut self, at_once: bool) -> Result<(), Refused>
        ensures goes { GoesOn [] self.old self.new }
        ensures left { Left self.old.streams.entries self.new.streams.entries }
        ensures config { self.new.config ≡ self.old.config }
        ensures works { WorksOn self.old self.new }
    {
        let mut from = 0;
        for _session in 0..self.streams.len() {
            let Some(id) = self.next_session(from) else {
                break;
            };
            self.end_one(id, at_once)?;
            from = id.saturating_add(1);
        }
        Ok(())
    }

    // Asks the peer to end a session, or closes it.
    #[tactic(auto, using(crate::proofs::ActLemmas::act, crate::proofs::ActLemmas::act_still, crate::proofs::ActLemmas::act_kept, crate::proofs::KeepsLemmas::kept))]
    fn end_one(&mut self, id: u64, at_once: bool) -> Result<(), Refused>
        ensures goes { GoesOn [] self.old self.new }
        ensures left { Left self.old.streams.entries self.new.streams.entries }
        ensures config { self.new.config ≡ self.old.config }
        ensures works { WorksOn self.old self.new }
    {
        if at_once {
            return self.close_session(id, 0, "");
        }
        self.drain_session(id)
    }
}
