//! Steps, until one of them tells an event.
ghost use Rattle.std.specs.Prelude.{◌≡◌, [], Ok, None, true, false, IfOk, IfSome, OnOk};
ghost use Rattle.vesgrauf.specs.Bounds.{KeepsBound};
ghost use Rattle.vesgrauf.specs.Keeps.{Keeps, KeepsOwn};
ghost use Rattle.vesgrauf.specs.Progress.{IsSettled};
ghost use Rattle.vesgrauf.specs.State.{is_over, is_last, go_on, IsAfterEnd, IsSomeOk, IsTold};
ghost use Rattle.vesgrauf.specs.Told.{ends, word_of, said_by, told_now, told_by_call};
ghost use Rattle.vesgrauf.specs.Halves.{ending_queued};
ghost use Rattle.vesgrauf.specs.Items.{items_told};
ghost use Rattle.vesgrauf.specs.Theirs.{Accepts, Tells, TellsAll, told_by, told_in};
ghost use Rattle.vesgrauf.specs.Works.{WorksOn};

use crate::connection::{Connection, Step, Stop};
use crate::event::{Event, EventKind};
use crate::input::{Input, Report};
use std::alloc::AllocError;

impl Connection {
    // Returns the next event, as `next_event` does: the first that is queued, or that of as many steps as it takes.
    #[tactic(auto, using(crate::proofs::ActLemmas::act, crate::proofs::KeepsOwnLemmas::hold, crate::proofs::StepLemmas::queued_all, crate::proofs::BoundLemmas::bound))]
    pub(super) fn next_by_steps<'a>(
        &mut self,
        input: &mut Input<'a>,
    ) -> Result<Option<Event<'a>>, AllocError>
        ensures last { IsAfterEnd self.old → IsSomeOk result (λ e. is_last e.kind ≡ true) }
        ensures over { IsAfterEnd self.old → IsAfterEnd self.new }
        ensures keeps { KeepsOwn (told_by_call result) self.old self.new }
        ensures works { OnOk result (WorksOn self.old self.new) }
        ensures told { is_over self.new ≡ false → IfOk result (λ e. TellsAll self.old.ids (told_by e)
            self.old.streams.entries input.old self.new.streams.entries input.new) }
        ensures settled { result ≡ Ok None → IsSettled self.new input.new }
        ensures bounded { is_over self.new ≡ false → OnOk result (KeepsBound self.old self.new) }
    {
        if let Some(event) = self.first_queued() {
            return Ok(Some(event));
        }
        self.accept_and_step(input)
    }

    // Returns the next event, after the streams up to that of the input are registered.
    #[tactic(auto, using(crate::proofs::ActLemmas::act, crate::proofs::KeepsOwnLemmas::hold, crate::proofs::BoundLemmas::bound, crate::proofs::BoundLemmas::bound_start))]
    fn accept_and_step<'a>(
        &mut self,
        input: &mut Input<'a>,
    ) -> Result<Option<Event<'a>>, AllocError>
        ensures last { IsAfterEnd self.old → IsSomeOk result (λ e. is_last e.kind ≡ true) }
        ensures over { IsAfterEnd self.old → IsAfterEnd self.new }
        ensures keeps { KeepsOwn (told_by_call result) self.old self.new }
        ensures works { OnOk result (WorksOn self.old self.new) }
        ensures told { is_over self.new ≡ false → IfOk result (λ e. TellsAll self.old.ids (told_by e)
            self.old.streams.entries input.old self.new.streams.entries input.new) }
        ensures settled { result ≡ Ok None → IsSettled self.new input.new }
        ensures bounded { is_over self.new ≡ false → OnOk result (KeepsBound self.old self.new) }
    {
        self.accept_or_fail(input.report)?;
        self.take_steps(input)
    }

    // Registers the streams of the peer up to that of a report. An error ends the connection.
    #[tactic(auto, using(crate::proofs::ActLemmas::act, crate::proofs::KeepsOwnLemmas::hold))]
    fn accept_or_fail(&mut self, report: Report) -> Result<(), AllocError>
        ensures still { is_over self.old ≡ true → (self.new ≡ self.old) × (result ≡ Ok tt) }
        ensures keeps { KeepsOwn [] self.old self.new }
        ensures works { OnOk result (WorksOn self.old self.new) }
        ensures accepts { is_over self.new ≡ false
            → Accepts self.old.ids self.old.streams.entries self.new.ids self.new.streams.entries }
    {
        if self.ended.is_some() {
            return Ok(());
        }
        match self.accept_for(report) {
            Ok(()) => Ok(()),
            Err(Stop::Memory) => Err(AllocError),
            Err(Stop::Broken(code, fault)) => {
                self.fail(None, code, fault);
                Ok(())
            }
        }
    }

    // Returns the next event, by as many steps as it takes.
    #[tactic(auto, using(crate::proofs::ActLemmas::act, crate::proofs::KeepsOwnLemmas::hold, crate::proofs::StepLemmas::quiet_then, crate::proofs::StepLemmas::queued_tells, crate::proofs::StepLemmas::nothing_tells, crate::proofs::BoundLemmas::bound))]
    pub(super) fn take_steps<'a>(
        &mut self,
        input: &mut Input<'a>,
    ) -> Result<Option<Event<'a>>, AllocError>
        ensures last { IsAfterEnd self.old → IsSomeOk result (λ e. is_last e.kind ≡ true) }
        ensures over { IsAfterEnd self.old → IsAfterEnd self.new }
        ensures ends { is_over self.old ≡ true → is_over self.new ≡ true }
        ensures keeps { KeepsOwn (told_by_call result) self.old self.new }
        ensures works { OnOk result (WorksOn self.old self.new) }
        ensures told { is_over self.new ≡ false → IfOk result (λ e. Tells (told_by e)
            self.old.streams.entries input.old self.new.streams.entries input.new) }
        ensures settled { result ≡ Ok None → IsSettled self.new input.new }
        ensures bounded { is_over self.new ≡ false → OnOk result (KeepsBound self.old self.new) }
    {
        for _step in 0..u64::MAX {
            if let Some(event) = self.first_queued() {
                return Ok(Some(event));
            }
            match self.try_step(input)? {
                Step::Told(event) => return Ok(Some(event)),
                Step::Nothing => {
                    self.check_settled(input)?;
                    return Ok(None);
                }
                Step::More => {}
            }
        }
        // (after so many steps the call is to be made again)
        Err(AllocError)
    }

    // Takes a step, before the end of the connection or after it.
    #[tactic(auto, using(crate::proofs::ActLemmas::act, crate::proofs::KeepsOwnLemmas::hold, crate::proofs::BoundLemmas::bound))]
    fn try_step<'a>(&mut self, input: &mut Input<'a>) -> Result<Step<'a>, AllocError>
        ensures last { IsAfterEnd self.old → IfOk result (λ s. IsTold s (λ e. is_last e.kind ≡ true)) }
        ensures over { IsAfterEnd self.old → IsAfterEnd self.new }
        ensures ends { is_over self.old ≡ true → is_over self.new ≡ true }
        ensures keeps { KeepsOwn (said_by result) self.old self.new }
        ensures works { OnOk result (WorksOn self.old self.new) }
        ensures told { is_over self.new ≡ false → IfOk result (λ s. Tells (told_in s)
            self.old.streams.entries input.old self.new.streams.entries input.new) }
        ensures bounded { is_over self.new ≡ false → OnOk result (KeepsBound self.old self.new) }
    {
        match self.ended {
            Some(ended) => Ok(self.step_after_end(ended, input)),
            None => self.step_or_fail(input),
        }
    }

    // Takes a step. An error ends the connection.
    #[tactic(auto, using(crate::proofs::ActLemmas::act, crate::proofs::KeepsOwnLemmas::hold, crate::proofs::BoundLemmas::bound))]
    fn step_or_fail<'a>(&mut self, input: &mut Input<'a>) -> Result<Step<'a>, AllocError>
        ensures keeps { KeepsOwn (said_by result) self.old self.new }
        ensures works { OnOk result (WorksOn self.old self.new) }
        ensures told { is_over self.new ≡ false → IfOk result (λ s. Tells (told_in s)
            self.old.streams.entries input.old self.new.streams.entries input.new) }
        ensures bounded { is_over self.new ≡ false → OnOk result (KeepsBound self.old self.new) }
    {
        let stream = self.stream_at_hand(input);
        match self.step(input) {
            Ok(step) => Ok(step),
            Err(Stop::Memory) => Err(AllocError),
            Err(Stop::Broken(code, fault)) => {
                self.fail(stream, code, fault);
                Ok(Step::More)
            }
        }
    }

    // Takes the first event that is queued, with the number that the program has given its stream since.
    #[tactic(auto, using(crate::proofs::KeepsLemmas::keeps_as))]
    fn first_queued<'a>(&mut self) -> Option<Event<'a>>
        ensures silent { IfSome result (λ e. items_told e.kind ≡ []) }
        ensures last { go_on self.old.events.items ≡ false → IfSome result (λ e. is_last e.kind ≡ true) }
        ensures events { go_on self.old.events.items ≡ false → go_on self.new.events.items ≡ false }
        ensures streams { self.new.streams ≡ self.old.streams }
        ensures ended { self.new.ended ≡ self.old.ended }
        ensures ids { self.new.ids ≡ self.old.ids }
        ensures keeps { Keeps (told_now result) self.old self.new }
    {
        let event = self.pop_queued()?;
        Some(self.numbered(event))
    }

    // Takes the first event that is queued. What is read of a stream never is.
    #[tactic(auto, using(crate::proofs::KeepsLemmas::keeps_refl, crate::proofs::KeepsLemmas::keeps_told_first, crate::proofs::KeepsLemmas::keeps_dropped))]
    fn pop_queued<'a>(&mut self) -> Option<Event<'a>>
        ensures silent { IfSome result (λ e. items_told e.kind ≡ []) }
        ensures last { go_on self.old.events.items ≡ false → IfSome result (λ e. is_last e.kind ≡ true) }
        ensures events { go_on self.old.events.items ≡ false → go_on self.new.events.items ≡ false }
        ensures others { self.new ≡ record self.old { events = self.new.events } }
        ensures keeps { Keeps (told_now result) self.old self.new }
    {
        let event = self.events.pop_front()?;
        if tells_items(&event) {
            return None;
        }
        Some(event)
    }

    // Returns an event that was queued, with the number that the program has given its stream since.
    fn numbered<'a>(&self, event: Event<'a>) -> Event<'a>
        ensures kind { result.kind ≡ event.entry.kind }
        ensures stream { result.stream ≡ event.entry.stream }
    {
        let mut event = event;
        if is_of_stream(&event) {
            if let Some(entry) = self.streams.get(&event.stream) {
                event.user = entry.user;
            }
        }
        event
    }
}

// Returns whether an event that was queued is one of a stream.
fn is_of_stream(event: &Event<'_>) -> bool {
    matches!(
        event.kind,
        EventKind::Stopped(_) | EventKind::Reset(_) | EventKind::Failed(_) | EventKind::Closed(_)
    )
}

// Returns whether an event tells what was read of a stream.
fn tells_items(event: &Event<'_>) -> bool
    ensures silent { result ≡ false → items_told event.now.kind ≡ [] }
    ensures goes_on { result ≡ true → ends (word_of event.now.kind) ≡ false }
    ensures ends_nothing { result ≡ true → ending_queued event.now.kind ≡ None }
{
    matches!(
        event.kind,
        EventKind::Data(_)
            | EventKind::Request(_)
            | EventKind::Connect(_, _)
            | EventKind::Interim(_, _)
            | EventKind::Response(_, _)
            | EventKind::Trailers(_)
            | EventKind::Draining
            | EventKind::End
    )
}
