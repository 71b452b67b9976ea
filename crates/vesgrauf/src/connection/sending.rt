//! What QUIC is to send and to do.
ghost use Rattle.std.specs.Prelude.{◌≡◌, ◌⊎◌, false, true, is_some, None, Ok, IfErr, IfSome, OnOk, OnErr, []};
ghost use Rattle.vesgrauf.specs.Order.{TakesFirst, IsNoneOrOpen};
ghost use Rattle.vesgrauf.specs.Halves.{LastsBut, LastsOn};
ghost use Rattle.vesgrauf.specs.Keeps.{Keeps, KeepsBut};
ghost use Rattle.vesgrauf.specs.Messages.{ChangesThen};
ghost use Rattle.vesgrauf.specs.State.{next_output, Changes, IsStill, IsRefused, ShowsNext, view_of, blocked_at, blocked_in, is_over, is_own, Of, stream_at};
ghost use Rattle.vesgrauf.specs.Progress.{IsSent, IsTurn, IsTurnOf, NoneIsSending};
ghost use Rattle.vesgrauf.specs.Ids.{to_open};
ghost use Rattle.vesgrauf.specs.Streams.{IsNotDue, ShowsOwn, TookOwn, is_it};
ghost use Rattle.vesgrauf_queue.specs.State.{Shows};
ghost use Rattle.vesgrauf_queue.specs.Steps.{Does, Acknowledges};
ghost use Rattle.vesgrauf.specs.declared.refused.Refused.TheVariants as refused;
ghost use Rattle.vesgrauf.specs.Own.{own_at, Took, TookAlone, Untouched, UntouchedBut};
ghost use Rattle.vesgrauf.specs.Theirs.{Left, IsSilent};
ghost use Rattle.vesgrauf.specs.Told.{GoesOn, said_in};
ghost use Rattle.vesgrauf.specs.Works.{IsCall, WorksOn};

use crate::connection::placing::{give_place, keep_place};
use crate::connection::{Connection, Step};
use crate::event::EventKind;
use crate::output::{Next, Output, Scope, StreamKind};
use crate::refused::Refused;
use std::alloc::AllocError;

#[tactic(auto, using(crate::proofs::KeepsLemmas::keep))]
impl Connection {
    /// Returns what QUIC is to do next, or `None`. It is the same until it is taken, or a call or an input puts another
    /// first or ends the connection.
    pub fn output(&self) -> Option<Output>
        ensures { result ≡ next_output self.now }
    {
        if let Some(code) = self.closes {
            return Some(Output::Close(code));
        }
        if self.ended.is_some() {
            return None;
        }
        if let Some(id) = self.ids.next_to_open() {
            return Some(Output::Open {
                id,
                kind: StreamKind::of(id),
            });
        }
        self.first_output()
    }

    /// QUIC did what [`output`](Self::output) returned last: anything but [`Output::Open`](Output::Open), which
    /// [`opened`](Self::opened) takes.
    ///
    /// # Errors
    ///
    /// `NotAsked` if there is none. `Memory`: nothing changes, and the call is to be made again.
    #[tactic(auto, using(crate::proofs::ActLemmas::act, crate::proofs::ActLemmas::act_still, crate::proofs::ActLemmas::act_kept, crate::proofs::KeepsLemmas::kept, crate::proofs::OwnLemmas::untouched_set, crate::proofs::TheirsLemmas::left_set, crate::proofs::GoesLemmas::goes_set, crate::proofs::LastsLemmas::lasts_refl))]
    pub fn output_taken(&mut self) -> Result<(), Refused>
        ensures taken { OnOk result (self.old.closes ≡ None
            → TakesFirst self.old.outputs.items self.new.outputs.items) }
        ensures closed { is_some self.old.closes ≡ true
            → (result ≡ Ok tt) × (self.new ≡ record self.old { closes = None }) }
        ensures shown { OnOk result (is_some (next_output self.old) ≡ true) }
        ensures opens { OnOk result (self.old.closes ≡ None → to_open self.old.ids ≡ None) }
        ensures asked { IfErr result (λ e. (e ≡ refused.Memory)
            ⊎ ((e ≡ refused.NotAsked) × IsNoneOrOpen (next_output self.old))) }
        ensures refused { IfErr result (λ e. IsRefused e self.old self.new) }
        ensures own { Untouched self.old.streams.entries self.new.streams.entries }
        ensures left { Left self.old.streams.entries self.new.streams.entries }
        ensures config { self.new.config ≡ self.old.config }
        ensures goes { GoesOn [] self.old self.new }
        ensures lasts { LastsOn [] self.old self.new }
        ensures works { WorksOn self.old self.new }
    {
        if self.closes.is_some() {
            self.closes = None;
            return Ok(());
        }
        if self.ended.is_some() || self.ids.next_to_open().is_some() {
            return Err(Refused::NotAsked);
        }
        self.reserve()?;
        match self.outputs.pop_front() {
            None => Err(Refused::NotAsked),
            Some(Output::Reset(id, _)) => {
                self.reset_taken(id)?;
                Ok(())
            }
            Some(_) => Ok(()),
        }
    }

    /// Returns the bytes that QUIC is to send next, or `None` if no stream may be sent from, or all are blocked. They are
    /// the same until another call is made that changes something.
    #[tactic(auto, using(crate::proofs::ProgressLemmas::all_sent))]
    pub fn next_send(&self) -> Option<Next<'_>>
        ensures next { IfSome result (λ n. ShowsNext self.now n.id n.bytes.now n.more.now n.fin) }
        ensures turn { IfSome result (λ n. IsTurn self.now n.id n.bytes.now n.more.now n.fin) }
        ensures over { is_over self.now ≡ true → result ≡ None }
        ensures blocked { self.now.is_blocked ≡ true → result ≡ None }
        ensures none { result ≡ None → is_over self.now ≡ false → self.now.is_blocked ≡ false → IsSent self.now }
    {
        if self.ended.is_some() || self.is_blocked {
            return None;
        }
        match self.control.next_due() {
            Some(next) => Some(next),
            None => self.next_of_qpack(),
        }
    }

    // Returns the bytes that QUIC is to send next of a stream that is not the control stream.
    fn next_of_qpack(&self) -> Option<Next<'_>>
        ensures next { IfSome result (λ n. ShowsOwn self.now.decoder n.id n.bytes.now n.more.now n.fin
            ⊎ (ShowsOwn self.now.encoder n.id n.bytes.now n.more.now n.fin
            ⊎ Of (stream_at self.now n.id) (λ e. Shows e.writing.queue n.bytes.now n.more.now n.fin))) }
        ensures turn { IfSome result (λ n. ShowsOwn self.now.decoder n.id n.bytes.now n.more.now n.fin
            ⊎ (ShowsOwn self.now.encoder n.id n.bytes.now n.more.now n.fin ⊎ IsTurnOf self.now n.id)) }
        ensures decoder { result ≡ None → IsNotDue self.now.decoder }
        ensures encoder { result ≡ None → IsNotDue self.now.encoder }
        ensures none { result ≡ None → NoneIsSending self.now }
    {
        match self.decoder.next_due() {
            Some(next) => Some(next),
            None => self.next_of_encoder(),
        }
    }

    // Returns the bytes that QUIC is to send next of the own encoder stream, or of a stream that is not critical.
    fn next_of_encoder(&self) -> Option<Next<'_>>
        ensures next { IfSome result (λ n. ShowsOwn self.now.encoder n.id n.bytes.now n.more.now n.fin
            ⊎ Of (stream_at self.now n.id) (λ e. Shows e.writing.queue n.bytes.now n.more.now n.fin)) }
        ensures turn { IfSome result (λ n. ShowsOwn self.now.encoder n.id n.bytes.now n.more.now n.fin
            ⊎ IsTurnOf self.now n.id) }
        ensures encoder { result ≡ None → IsNotDue self.now.encoder }
        ensures none { result ≡ None → NoneIsSending self.now }
    {
        match self.encoder.next_due() {
            Some(next) => Some(next),
            None => self.next_of_streams(),
        }
    }

    // Returns the bytes that QUIC is to send next of a stream that is not critical.
    #[tactic(auto, using(crate::proofs::ProgressLemmas::none_is_sending, crate::proofs::ProgressLemmas::turn_of, crate::proofs::ProgressLemmas::none_gone, crate::proofs::ProgressLemmas::none_idle))]
    fn next_of_streams(&self) -> Option<Next<'_>>
        ensures next { IfSome result (λ n. Of (stream_at self.now n.id)
            (λ e. Shows e.writing.queue n.bytes.now n.more.now n.fin)) }
        ensures turn { IfSome result (λ n. IsTurnOf self.now n.id) }
        ensures none { result ≡ None → NoneIsSending self.now }
    {
        let id = self.ready.next()?;
        let entry = self.streams.get(&id)?;
        let next = entry.writing.next()?;
        Some(Next {
            id,
            bytes: next.bytes,
            more: next.more,
            fin: next.fin,
        })
    }

    /// QUIC took the first `len` of the bytes that [`next_send`](Self::next_send) returned, and the end with the last
    /// of them.
    ///
    /// # Errors
    ///
    /// `NoStream`; `NotAsked` if so many bytes were not returned; `Memory`: nothing changes, and the call is to be made
    /// again.
    #[tactic(auto, using(crate::proofs::ActLemmas::act, crate::proofs::ActLemmas::act_still, crate::proofs::ActSteps::call_works, crate::proofs::ActSteps::call_taken, crate::proofs::KeepsLemmas::kept, crate::proofs::LastsLemmas::lasts_refl))]
    pub fn sent(&mut self, id: u64, len: usize) -> Result<(), Refused>
        ensures refused { IfErr result (λ e. IsRefused e self.old self.new) }
        ensures own { UntouchedBut id self.old.streams.entries self.new.streams.entries }
        ensures took { OnOk result (is_own self.old id ≡ false
            → TookAlone len (own_at self.old.streams.entries id) (own_at self.new.streams.entries id)) }
        ensures left { Left self.old.streams.entries self.new.streams.entries }
        ensures config { self.new.config ≡ self.old.config }
        ensures goes { GoesOn [] self.old self.new }
        ensures control { OnOk result (is_it id self.old.control.id ≡ true
            → TookOwn len self.old.control self.new.control) }
        ensures decoder { OnOk result (is_it id self.old.control.id ≡ false → is_it id self.old.decoder.id ≡ true
            → TookOwn len self.old.decoder self.new.decoder) }
        ensures encoder { OnOk result (is_it id self.old.control.id ≡ false → is_it id self.old.decoder.id ≡ false
            → is_it id self.old.encoder.id ≡ true → TookOwn len self.old.encoder self.new.encoder) }
        ensures lasts { LastsBut id self.old self.new }
        ensures calls { IsCall self.old self.new }
    {
        self.reserve()?;
        let spares = &mut self.tools.spares;
        if self.control.is(id) {
            return Ok(self.control.sent(spares, len)?);
        }
        if self.decoder.is(id) {
            return Ok(self.decoder.sent(spares, len)?);
        }
        if self.encoder.is(id) {
            return Ok(self.encoder.sent(spares, len)?);
        }
        self.sent_on(id, len)
    }

    // QUIC took bytes of a stream that is not critical.
    #[tactic(auto, using(crate::proofs::ActLemmas::act, crate::proofs::ActLemmas::act_still, crate::proofs::ActLemmas::act_kept, crate::proofs::KeepsLemmas::kept, crate::proofs::OwnLemmas::took_alone, crate::proofs::StepLemmas::left_trans, crate::proofs::OwnLemmas::but_then))]
    fn sent_on(&mut self, id: u64, len: usize) -> Result<(), Refused>
        ensures refused { IfErr result (λ e. IsRefused e self.old self.new) }
        ensures own { UntouchedBut id self.old.streams.entries self.new.streams.entries }
        ensures took { OnOk result (TookAlone len (own_at self.old.streams.entries id)
            (own_at self.new.streams.entries id)) }
        ensures left { Left self.old.streams.entries self.new.streams.entries }
        ensures config { self.new.config ≡ self.old.config }
        ensures goes { GoesOn [] self.old self.new }
        ensures lasts { LastsBut id self.old self.new }
        ensures works { WorksOn self.old self.new }
    {
        let is_done = self.message_sent(id, len)?;
        Ok(self.after_sent(id, is_done)?)
    }

    // QUIC took bytes of a stream: there may be room again, or nothing is to be done for its own half any more.
    #[tactic(auto, using(crate::proofs::KeepsLemmas::but))]
    fn after_sent(&mut self, id: u64, is_done: bool) -> Result<(), AllocError>
        ensures keeps { KeepsBut id self.old self.new }
    {
        self.note_room(id);
        if is_done {
            self.after_end(id)?;
        }
        Ok(())
    }

    // QUIC took bytes of a stream that is not critical, whose turn it was. Returns whether nothing is to be done for its own
    // half any more.
    #[inline(always)]
    #[tactic(auto, using(crate::proofs::ActLemmas::act, crate::proofs::ActLemmas::act_still, crate::proofs::ActLemmas::act_kept, crate::proofs::KeepsLemmas::kept, crate::proofs::OwnLemmas::took_set, crate::proofs::TheirsLemmas::left_set, crate::proofs::GoesLemmas::goes_set, std::proofs::lemmas::Map::Steps::set_value_same, crate::proofs::PlaceLemmas::ordered_turned, crate::proofs::JoinedLemmas::joined_stays, crate::proofs::SeveredLemmas::stays_put, crate::proofs::LastsLemmas::lasts_refl, crate::proofs::LastsLemmas::lasts_but_set))]
    fn message_sent(&mut self, id: u64, len: usize) -> Result<bool, Refused>
        ensures refused { OnErr result (IsStill self.old self.new) }
        ensures own { UntouchedBut id self.old.streams.entries self.new.streams.entries }
        ensures took { OnOk result (Took len (own_at self.old.streams.entries id)
            (own_at self.new.streams.entries id)) }
        ensures left { Left self.old.streams.entries self.new.streams.entries }
        ensures config { self.new.config ≡ self.old.config }
        ensures goes { GoesOn [] self.old self.new }
        ensures lasts { LastsBut id self.old self.new }
        ensures works { WorksOn self.old self.new }
    {
        let Some(entry) = self.streams.get_mut(&id) else {
            return Err(Refused::NoStream);
        };
        entry.sent(&mut self.tools.spares, len)?;
        self.ready.turn_taken(id, entry.kind());
        keep_place(&mut self.ready, id, entry);
        Ok(entry.writing.is_done())
    }

    // Notes that there may be room on a stream.
    fn note_room(&mut self, id: u64)
        ensures keeps { Keeps [] self.old self.new }
    {
        // (one that is passed over is looked at once more)
        let is_passed = id < self.pending.cursor;
        if (is_passed || !self.pending.has_room) && self.full.contains(&id) {
            self.pending.has_room = true;
            if is_passed {
                self.pending.cursor = 0;
            }
        }
    }

    // Tells of the next stream that has room again.
    pub(super) fn next_writable<'a>(&mut self) -> Step<'a>
        ensures keeps { Keeps (said_in result) self.old self.new }
        ensures silent { IsSilent result }
    {
        for _stream in 0..self.full.len() {
            let Some(id) = self.next_full() else {
                break;
            };
            self.pending.cursor = id.saturating_add(1);
            if self.take_writable(id) {
                self.full.remove(&id);
                return self.tell(id, EventKind::Writable);
            }
        }
        self.pending.has_room = false;
        self.pending.cursor = 0;
        Step::More
    }

    // Returns whether a `Writable` is owed on a stream, which is then told.
    #[tactic(auto, using(crate::proofs::KeepsLemmas::keep, crate::proofs::PlaceLemmas::ordered_step, crate::proofs::QueuedLemmas::told_more, crate::proofs::JoinedLemmas::joined_half, crate::proofs::SeveredLemmas::out_told))]
    fn take_writable(&mut self, id: u64) -> bool
        ensures keeps { Keeps [] self.old self.new }
    {
        match self.streams.get_mut(&id) {
            Some(entry) => entry.writing.take_writable(),
            None => false,
        }
    }

    fn next_full(&self) -> Option<u64> {
        let cursor = self.pending.cursor;
        self.full.range(cursor..).next().copied()
    }

    /// The peer has the next `len` of the bytes that QUIC took of a stream. Call it if
    /// [`keep_until_acked`](crate::config::Config) or [`bound_by_acked`](crate::config::Config) is set.
    ///
    /// # Errors
    ///
    /// `NotAsked` if QUIC did not take so many. `Memory`: nothing changes, and the call is to be made again. There is
    /// none if the stream is forgotten.
    #[tactic(auto, using(crate::proofs::ActSteps::act_acked, crate::proofs::ActLemmas::act, crate::proofs::ActLemmas::act_still, crate::proofs::ActLemmas::act_kept, crate::proofs::KeepsLemmas::kept, crate::proofs::OwnLemmas::untouched_set, crate::proofs::TheirsLemmas::left_set, crate::proofs::GoesLemmas::goes_set, std::proofs::lemmas::Map::Steps::set_value_same, crate::proofs::LastsLemmas::lasts_refl))]
    pub fn acked(&mut self, id: u64, len: u64) -> Result<(), Refused>
        ensures refused { IfErr result (λ e. IsRefused e self.old self.new) }
        ensures control { OnOk result (is_it id self.old.control.id ≡ true
            → Does (Acknowledges len) self.old.control.queue self.new.control.queue) }
        ensures decoder { OnOk result (is_it id self.old.control.id ≡ false → is_it id self.old.decoder.id ≡ true
            → Does (Acknowledges len) self.old.decoder.queue self.new.decoder.queue) }
        ensures encoder { OnOk result (is_it id self.old.control.id ≡ false → is_it id self.old.decoder.id ≡ false
            → is_it id self.old.encoder.id ≡ true
            → Does (Acknowledges len) self.old.encoder.queue self.new.encoder.queue) }
        ensures acks { OnOk result (is_own self.old id ≡ false → is_some (stream_at self.old id) ≡ true
            → ChangesThen id (λ v w. Does (Acknowledges len) v.queue w.queue) self.old self.new) }
        ensures own { Untouched self.old.streams.entries self.new.streams.entries }
        ensures left { Left self.old.streams.entries self.new.streams.entries }
        ensures config { self.new.config ≡ self.old.config }
        ensures goes { GoesOn [] self.old self.new }
        ensures lasts { LastsBut id self.old self.new }
        ensures works { WorksOn self.old self.new }
    {
        self.reserve()?;
        let spares = &mut self.tools.spares;
        if self.control.is(id) {
            return Ok(self.control.queue.acked(spares, len)?);
        }
        if self.decoder.is(id) {
            return Ok(self.decoder.queue.acked(spares, len)?);
        }
        if self.encoder.is(id) {
            return Ok(self.encoder.queue.acked(spares, len)?);
        }
        self.acked_stream(id, len)
    }

    // The peer has more of the bytes of a stream that is not critical, which may be over then.
    #[tactic(auto, using(crate::proofs::KeepsLemmas::but))]
    fn acked_stream(&mut self, id: u64, len: u64) -> Result<(), Refused>
        ensures refused { IfErr result (λ e. IsRefused e self.old self.new) }
        ensures acks { OnOk result (is_some (stream_at self.old id) ≡ true
            → ChangesThen id (λ v w. Does (Acknowledges len) v.queue w.queue) self.old self.new) }
        ensures keeps { KeepsBut id self.old self.new }
    {
        let is_done = self.acked_on(id, len)?;
        Ok(self.after_sent(id, is_done)?)
    }

    // The peer has more of the bytes of a stream that is not critical. Returns whether nothing is to be done for its own half
    // any more.
    #[tactic(auto, using(crate::proofs::KeepsLemmas::keep, std::proofs::lemmas::Map::Steps::set_value_same, crate::proofs::PlaceLemmas::ordered_step, crate::proofs::QueuedLemmas::more_acked, crate::proofs::JoinedLemmas::joined_half, crate::proofs::SeveredLemmas::out_acked, crate::proofs::SeveredLemmas::out_same))]
    fn acked_on(&mut self, id: u64, len: u64) -> Result<bool, Refused>
        ensures refused { IfErr result (λ e. IsRefused e self.old self.new) }
        ensures acks { OnOk result (is_some (stream_at self.old id) ≡ true
            → Changes id (λ v w. Does (Acknowledges len) v.queue w.queue) self.old self.new) }
        ensures keeps { Keeps [] self.old self.new }
    {
        let Some(entry) = self.streams.get_mut(&id) else {
            return Ok(false);
        };
        entry.writing.acked(&mut self.tools.spares, len)?;
        Ok(entry.writing.is_done())
    }

    // QUIC took the reset of a stream: nothing is to be done for its own half any more.
    fn reset_taken(&mut self, id: u64) -> Result<(), AllocError>
        ensures keeps { Keeps [] self.old self.new }
        ensures outputs { self.new.outputs ≡ self.old.outputs }
        ensures closes { self.new.closes ≡ self.old.closes }
    {
        self.note_reset_sent(id);
        self.forget_if_done(id)
    }

    // QUIC took the reset of a stream.
    #[tactic(auto, using(crate::proofs::KeepsLemmas::keep, crate::proofs::PlaceLemmas::ordered_step, crate::proofs::QueuedLemmas::reset_put_more, crate::proofs::JoinedLemmas::joined_half, crate::proofs::SeveredLemmas::out_reset_put))]
    fn note_reset_sent(&mut self, id: u64)
        ensures keeps { Keeps [] self.old self.new }
        ensures outputs { self.new.outputs ≡ self.old.outputs }
        ensures closes { self.new.closes ≡ self.old.closes }
    {
        if let Some(entry) = self.streams.get_mut(&id) {
            let _taken = entry.writing.reset_sent();
        }
    }

    /// QUIC takes nothing of this for now, or does again. What is said of one scope does not change another: a stream
    /// that is blocked stays so when all are free again.
    ///
    /// # Errors
    ///
    /// `Memory`: nothing changes, and the call is to be made again.
    #[tactic(auto, using(crate::proofs::ActSteps::act_goes, crate::proofs::ActLemmas::act, crate::proofs::ActLemmas::act_still, crate::proofs::ActLemmas::act_kept, crate::proofs::KeepsLemmas::kept, crate::proofs::IdLemmas::goes_blocked, crate::proofs::JoinedLemmas::joined_blocked, crate::proofs::LastsLemmas::lasts_refl))]
    pub fn set_blocked(&mut self, scope: Scope, blocked: bool) -> Result<(), Refused>
        ensures ok { OnOk result (view_of self.new ≡ blocked_at scope self.old blocked) }
        ensures err { IfErr result (λ e. e ≡ refused.Memory) }
        ensures kept { OnErr result (IsStill self.old self.new) }
        ensures goes { GoesOn [] self.old self.new }
        ensures lasts { LastsOn [] self.old self.new }
        ensures works { WorksOn self.old self.new }
    {
        match scope {
            Scope::Kind(kind) => {
                self.ids.block(kind, blocked);
                Ok(())
            }
            Scope::Stream(id) => self.block_stream(id, blocked),
            Scope::All => {
                self.is_blocked = blocked;
                Ok(())
            }
        }
    }

    // QUIC takes nothing of a stream for now, or does again.
    #[tactic(auto, using(crate::proofs::ActLemmas::act, crate::proofs::ActLemmas::act_still, crate::proofs::ActLemmas::act_kept, crate::proofs::KeepsLemmas::kept, std::proofs::lemmas::Map::Steps::set_value_same, crate::proofs::GoesLemmas::goes_set, crate::proofs::PlaceLemmas::ordered, crate::proofs::JoinedLemmas::joined, crate::proofs::PlaceLemmas::ordered_blocked, crate::proofs::PlaceLemmas::ordered_quiet, crate::proofs::PlaceLemmas::ordered_closed, crate::proofs::SendsLemmas::lasts_as_before, crate::proofs::SendsLemmas::lasting_same, crate::proofs::LastsLemmas::lasts_refl))]
    fn block_stream(&mut self, id: u64, blocked: bool) -> Result<(), Refused>
        ensures ok { OnOk result (view_of self.new ≡ blocked_in self.old id blocked) }
        ensures err { IfErr result (λ e. e ≡ refused.Memory) }
        ensures kept { OnErr result (IsStill self.old self.new) }
        ensures goes { GoesOn [] self.old self.new }
        ensures lasts { LastsOn [] self.old self.new }
        ensures works { WorksOn self.old self.new }
    {
        if self.control.is(id) {
            self.control.is_blocked = blocked;
            return Ok(());
        }
        if self.decoder.is(id) {
            self.decoder.is_blocked = blocked;
            return Ok(());
        }
        if self.encoder.is(id) {
            self.encoder.is_blocked = blocked;
            return Ok(());
        }
        let Some(entry) = self.streams.get_mut(&id) else {
            return Ok(());
        };
        if blocked {
            self.ready.remove(id, entry.kind());
            entry.is_blocked = true;
            return Ok(());
        }
        if !entry.is_opened {
            entry.is_blocked = false;
            return Ok(());
        }
        if !entry.has_more() {
            entry.is_blocked = false;
            return Ok(());
        }
        self.unplaced = give_place(&mut self.ready, self.unplaced, id, entry)?;
        entry.is_blocked = false;
        Ok(())
    }

    // Reserves the memory that a call takes for events and outputs.
    pub(super) fn reserve(&mut self) -> Result<(), Refused>
        ensures still { IsStill self.old self.new }
        ensures tools { self.new.tools ≡ self.old.tools }
        ensures err { IfErr result (λ e. e ≡ refused.Memory) }
    {
        match self.reserve_all() {
            Ok(()) => Ok(()),
            Err(_) => Err(Refused::Memory),
        }
    }

    // Reserves the memory that a step or a call takes.
    pub(super) fn reserve_all(&mut self) -> Result<(), AllocError>
        ensures still { IsStill self.old self.new }
        ensures tools { self.new.tools ≡ self.old.tools }
    {
        let streams = self.ids.count_members().saturating_add(4);
        self.events.reserve(streams)?;
        self.outputs.reserve(streams.saturating_mul(3))?;
        self.datagrams.opened.reserve(2)?;
        self.told.reserve(64)?;
        Ok(())
    }
}
