//! What is read at once, where nothing else is due.
ghost use Rattle.std.specs.Prelude.{◌≡◌, true, false, [], Ok, None, IfOk, OnOk};
ghost use Rattle.vesgrauf.specs.Bounds.{KeepsBound};
ghost use Rattle.vesgrauf.specs.Instructions.{table_of};
ghost use Rattle.vesgrauf.specs.Keeps.{KeepsOwn};
ghost use Rattle.vesgrauf.specs.Progress.{IsSettled, IsQuiet, IsStill};
ghost use Rattle.vesgrauf.specs.State.{is_over};
ghost use Rattle.vesgrauf.specs.Items.{content, items_if, items_in, items_found};
ghost use Rattle.vesgrauf.specs.Theirs.{ReadsOn, Passes, Tells, TellsAll, told_in, told_if, told_by, theirs_at};
ghost use Rattle.vesgrauf.specs.Told.{said_by, said_if_ok, told_by_call};
ghost use Rattle.vesgrauf.specs.declared.input.Report.TheVariants as report;
ghost use Rattle.vesgrauf_stream.specs.Reading.{bytes_of};
ghost use Rattle.vesgrauf.specs.Works.{MayRead, WorksOn};

use crate::connection::{Connection, Step, Stop};
use crate::event::{Event, EventKind};
use crate::input::{Input, Report};
use std::alloc::AllocError;
use vesgrauf_stream::bytes::{Bytes, Chunk};
use vesgrauf_stream::heard::Heard;
use vesgrauf_stream::reading::Found;

impl Connection {
    // Returns whether nothing is due before an input. (Few branches: it is asked at each call.)
    #[inline(always)]
    pub(super) fn is_quiet(&self) -> bool
        ensures lasts { result ≡ true → is_over self.now ≡ false }
        ensures quiet { result ≡ true → IsQuiet self.now }
    {
        (self.events.is_empty()
            & self.datagrams.opened.is_empty()
            & self.told.is_empty()
            & self.tools.instructions.is_empty())
            && self.ended.is_none()
            && self.pending.resumed.is_none()
            && !self.pending.begins_table
            && self.pending.named.is_none()
            && self.unplaced.is_none()
    }

    // Returns whether nothing is due, and nothing came.
    #[inline(always)]
    #[tactic(auto, using(crate::proofs::ProgressLemmas::quiet_settled))]
    pub(super) fn has_nothing_due(&self, input: &Input<'_>) -> bool
        ensures lasts { result ≡ true → is_over self.now ≡ false }
        ensures settled { result ≡ true → IsSettled self.now input.now }
    {
        matches!(input.report, Report::Nothing) && self.is_quiet() && self.is_still()
    }

    // Returns whether nothing is due where there is no input.
    #[inline(always)]
    fn is_still(&self) -> bool
        ensures { result ≡ true → IsStill self.now }
    {
        (!self.pending.is_woken & !self.pending.has_room & !self.is_leaving)
            && self.pending.unprocessed.is_none()
    }

    // Returns the next event of bytes of a stream, as `next_by_steps` does, where nothing is due before them.
    #[tactic(auto, using(crate::proofs::ActLemmas::act, crate::proofs::KeepsOwnLemmas::hold, crate::proofs::BoundLemmas::bound, crate::proofs::BoundLemmas::bound_left))]
    pub(super) fn read_at_once<'a>(
        &mut self,
        id: u64,
        input: &mut Input<'a>,
    ) -> Result<Option<Event<'a>>, AllocError>
        ensures keeps { KeepsOwn (told_by_call result) self.old self.new }
        ensures works { OnOk result (WorksOn self.old self.new) }
        ensures told { input.old.report ≡ report.Stream id → is_over self.new ≡ false
            → IfOk result (λ e. TellsAll self.old.ids (told_by e)
            self.old.streams.entries input.old self.new.streams.entries input.new) }
        ensures settled { result ≡ Ok None → IsSettled self.new input.new }
        ensures bounded { is_over self.new ≡ false → OnOk result (KeepsBound self.old self.new) }
    {
        if input.chunk.is_last() {
            return self.next_by_steps(input);
        }
        if self.reserve_all().is_err() {
            return Err(AllocError);
        }
        self.read_now(id, input)
    }

    // Returns the next event of bytes of a stream that is not said to end.
    #[tactic(auto, using(crate::proofs::ActLemmas::act, crate::proofs::KeepsOwnLemmas::hold, crate::proofs::BoundLemmas::bound, crate::proofs::BoundLemmas::bound_left))]
    fn read_now<'a>(
        &mut self,
        id: u64,
        input: &mut Input<'a>,
    ) -> Result<Option<Event<'a>>, AllocError>
        ensures keeps { KeepsOwn (told_by_call result) self.old self.new }
        ensures works { OnOk result (WorksOn self.old self.new) }
        ensures told { input.old.report ≡ report.Stream id → is_over self.new ≡ false
            → IfOk result (λ e. TellsAll self.old.ids (told_by e)
            self.old.streams.entries input.old self.new.streams.entries input.new) }
        ensures settled { result ≡ Ok None → IsSettled self.new input.new }
        ensures bounded { is_over self.new ≡ false → OnOk result (KeepsBound self.old self.new) }
    {
        match self.step_at_once(id, input) {
            Ok(None) => self.next_by_steps(input),
            Ok(Some(Step::Told(event))) => Ok(Some(event)),
            Ok(Some(Step::More)) => self.take_steps(input),
            Ok(Some(Step::Nothing)) => self.take_steps(input),
            Err(Stop::Memory) => Err(AllocError),
            Err(Stop::Broken(code, fault)) => {
                self.fail(Some(id), code, fault);
                self.take_steps(input)
            }
        }
    }

    // Takes a step by bytes of a stream that is read, of which nothing is kept and that waits for nothing.
    #[tactic(auto, using(crate::proofs::ActLemmas::act, crate::proofs::KeepsOwnLemmas::hold, crate::proofs::BoundLemmas::bound, crate::proofs::BoundLemmas::bound_left))]
    fn step_at_once<'a>(&mut self, id: u64, input: &mut Input<'a>) -> Result<Option<Step<'a>>, Stop>
        ensures keeps { KeepsOwn (said_if_ok result) self.old self.new }
        ensures works { OnOk result (WorksOn self.old self.new) }
        ensures tells { input.old.report ≡ report.Stream id → IfOk result (λ s. Tells (told_if s)
            self.old.streams.entries input.old self.new.streams.entries input.new) }
        ensures none { result ≡ Ok None → (input.new ≡ input.old) × (self.new.ids ≡ self.old.ids) }
        ensures bounded { OnOk result (KeepsBound self.old self.new) }
    {
        let len = input.chunk.len();
        match self.read_plain(id, &mut input.chunk)? {
            None => Ok(None),
            Some(found) => {
                input.count(len);
                Ok(Some(self.found_in_input(id, found, input)?))
            }
        }
    }

    // Returns what is found in bytes of a stream that is read, of which nothing is kept and that waits for nothing.
    #[tactic(auto, using(crate::proofs::ActLemmas::act, crate::proofs::KeepsOwnLemmas::hold, crate::proofs::KeepsOwnLemmas::holds_looked, crate::proofs::ActLemmas::act_looked, crate::proofs::ActLemmas::reads_here, crate::proofs::ActLemmas::reads_none, crate::proofs::LookLemmas::reads_set, crate::proofs::TellsLemmas::left_reads, crate::proofs::StepLemmas::left_itself, crate::proofs::BoundLemmas::bound, crate::proofs::BoundLemmas::bound_left, crate::proofs::PlaceLemmas::ordered, crate::proofs::JoinedLemmas::joined))]
    fn read_plain<'a>(&mut self, id: u64, chunk: &mut Chunk<'a>) -> Result<Option<Found<'a>>, Stop>
        ensures keeps { KeepsOwn [] self.old self.new }
        ensures works { OnOk result (WorksOn self.old self.new) }
        ensures reads { IfOk result (λ found. ReadsOn id (items_if found) self.old.streams.entries chunk.old
            self.new.streams.entries chunk.new) }
        ensures table { IfOk result (λ found. MayRead id (theirs_at self.old.streams.entries id)
            (theirs_at self.new.streams.entries id) (table_of self.old) (table_of self.new)) }
        ensures none { result ≡ Ok None → chunk.new ≡ chunk.old }
        ensures ids { self.new.ids ≡ self.old.ids }
        ensures bounded { OnOk result (KeepsBound self.old self.new) }
    {
        let Some(entry) = self.streams.get_mut(&id) else {
            return Ok(None);
        };
        let found = entry.look_plain(
            id,
            self.alloc,
            &mut self.shared,
            &mut self.fields,
            &mut self.told,
            chunk,
        )?;
        Ok(found)
    }

    // Handles what was found in bytes of a stream.
    #[tactic(auto, using(crate::proofs::ActLemmas::act, crate::proofs::KeepsOwnLemmas::hold, crate::proofs::TellsLemmas::more_passes, crate::proofs::BoundLemmas::bound, crate::proofs::BoundLemmas::bound_left))]
    fn found_in_input<'a>(
        &mut self,
        id: u64,
        found: Found<'a>,
        input: &mut Input<'a>,
    ) -> Result<Step<'a>, Stop>
        ensures keeps { KeepsOwn (said_by result) self.old self.new }
        ensures works { OnOk result (WorksOn self.old self.new) }
        ensures passes { input.old.report ≡ report.Stream id
            → IfOk result (λ s. Passes id (items_found found.entry) (told_in s)
            self.old.streams.entries input.old self.new.streams.entries input.new) }
        ensures bounded { OnOk result (KeepsBound self.old self.new) }
    {
        match found {
            Found::Heard(heard) => self.heard_at_once(id, heard, input),
            Found::Again => Ok(Step::More),
        }
    }

    // Handles what was heard in bytes of a stream: a piece of content at once.
    #[tactic(auto, using(crate::proofs::ActLemmas::act, crate::proofs::KeepsOwnLemmas::hold, crate::proofs::BoundLemmas::bound, crate::proofs::BoundLemmas::bound_left))]
    fn heard_at_once<'a>(
        &mut self,
        id: u64,
        heard: Heard<'a>,
        input: &mut Input<'a>,
    ) -> Result<Step<'a>, Stop>
        ensures keeps { KeepsOwn (said_by result) self.old self.new }
        ensures works { OnOk result (WorksOn self.old self.new) }
        ensures passes { input.old.report ≡ report.Stream id
            → IfOk result (λ s. Passes id (items_in heard.entry) (told_in s)
            self.old.streams.entries input.old self.new.streams.entries input.new) }
        ensures bounded { OnOk result (KeepsBound self.old self.new) }
    {
        match heard {
            Heard::Data(bytes) => self.piece_came(id, bytes, input),
            Heard::StreamData(bytes) => self.piece_came(id, bytes, input),
            heard => self.heard_in_input(id, heard, input),
        }
    }

    // Tells a piece of content. Nothing follows it but more bytes, or the end.
    #[tactic(auto, using(crate::proofs::ActLemmas::act, crate::proofs::KeepsOwnLemmas::hold, crate::proofs::TellsLemmas::taken_passes, crate::proofs::PieceLemmas::content_goes_on, crate::proofs::BoundLemmas::bound, crate::proofs::BoundLemmas::bound_left))]
    fn piece_came<'a>(
        &mut self,
        id: u64,
        bytes: Bytes<'a>,
        input: &mut Input<'a>,
    ) -> Result<Step<'a>, Stop>
        ensures keeps { KeepsOwn (said_by result) self.old self.new }
        ensures works { OnOk result (WorksOn self.old self.new) }
        ensures passes { IfOk result (λ s. Passes id (content (bytes_of bytes.entry)) (told_in s)
            self.old.streams.entries input.old self.new.streams.entries input.new) }
        ensures bounded { OnOk result (KeepsBound self.old self.new) }
    {
        input.end_if_read();
        self.tell_read(id, EventKind::Data(bytes))
    }
}
