//! Bytes of streams that came, and those that wait.
ghost use Rattle.std.specs.Prelude.{◌≡◌, ◌≤◌, ◌+◌, false, true, [], length, IfOk, OnOk};
ghost use Rattle.vesgrauf.specs.Bounds.{Fits, KeepsBound, most_kept};
ghost use Rattle.vesgrauf.specs.Instructions.{table_of};
ghost use Rattle.vesgrauf.specs.Keeps.{Keeps, KeepsOwn};
ghost use Rattle.vesgrauf.specs.Items.{items_in, items_by, items_found};
ghost use Rattle.vesgrauf.specs.State.{stream_at};
ghost use Rattle.vesgrauf.specs.Theirs.{ends_in, Left, OnlyAt, Same, ReadsOn, ReadsKept, Hands, Passes, TellsKept, Tells, Gone, theirs_at, told_in};
ghost use Rattle.vesgrauf.specs.Told.{said_by};
ghost use Rattle.vesgrauf.specs.Works.{MayRead, WorksOn};
ghost use Rattle.vesgrauf.specs.declared.entry.Peer.TheVariants as peers;
ghost use Rattle.vesgrauf.specs.declared.input.Report.TheVariants as report;

use crate::connection::failing::EXCESSIVE_LOAD;
use crate::connection::opening::{Joining, joining_of};
use crate::connection::{Connection, Step, Stop, internal};
use crate::entry::Peer;
use crate::event::Why;
use crate::input::{Input, Report};
use std::alloc::AllocError;
use vesgrauf_stream::bytes::Chunk;
use vesgrauf_stream::heard::Heard;
use vesgrauf_stream::reading::Found;
use wtp_connection::fault::Fault as StreamsFault;
use wtp_webtransport::event::Event as Said;
use wtp_webtransport::fault::Fault;

#[tactic(auto, using(crate::proofs::KeepsLemmas::keep))]
impl Connection {
    // Takes in bytes of a stream.
    #[tactic(auto, using(crate::proofs::ActLemmas::act, crate::proofs::KeepsOwnLemmas::hold, crate::proofs::BoundLemmas::bound, crate::proofs::BoundLemmas::bound_left))]
    pub(super) fn stream_came<'a>(
        &mut self,
        id: u64,
        input: &mut Input<'a>,
    ) -> Result<Step<'a>, Stop>
        ensures keeps { KeepsOwn (said_by result) self.old self.new }
        ensures works { OnOk result (WorksOn self.old self.new) }
        ensures tells { input.old.report ≡ report.Stream id → IfOk result (λ s. Tells (told_in s)
            self.old.streams.entries input.old self.new.streams.entries input.new) }
        ensures bounded { OnOk result (KeepsBound self.old self.new) }
    {
        self.instruct(id, input)?;
        self.note_end(id, input.chunk.is_last());
        self.bytes_came(id, input)
    }

    // Passes bytes to the own encoder that are instructions for it.
    #[tactic(auto, using(crate::proofs::KeepsLemmas::keep, crate::proofs::ReadsLemmas::left_same, crate::proofs::StepLemmas::left_itself))]
    fn instruct(&mut self, id: u64, input: &mut Input<'_>) -> Result<(), Stop>
        ensures keeps { Keeps [] self.old self.new }
        ensures same { input.old.report ≡ report.Stream id
            → OnOk result (Same self.old.streams.entries input.old self.new.streams.entries input.new) }
        ensures report { input.new.report ≡ input.old.report }
    {
        if self.is_decoder(id) {
            self.read_decoder_stream(id, input)?;
        }
        Ok(())
    }

    // Takes in bytes of a stream that are not for the own encoder.
    #[tactic(auto, using(crate::proofs::ActLemmas::act, crate::proofs::KeepsOwnLemmas::hold, crate::proofs::TellsLemmas::more_tells, crate::proofs::TellsLemmas::left_more_tells, crate::proofs::BoundLemmas::bound, crate::proofs::BoundLemmas::bound_left))]
    fn bytes_came<'a>(&mut self, id: u64, input: &mut Input<'a>) -> Result<Step<'a>, Stop>
        ensures keeps { KeepsOwn (said_by result) self.old self.new }
        ensures works { OnOk result (WorksOn self.old self.new) }
        ensures tells { input.old.report ≡ report.Stream id → IfOk result (λ s. Tells (told_in s)
            self.old.streams.entries input.old self.new.streams.entries input.new) }
        ensures bounded { OnOk result (KeepsBound self.old self.new) }
    {
        if !self.is_read(id) {
            self.drop_input(id, input)?;
            return Ok(Step::More);
        }
        // (bytes after the end are an error of QUIC)
        if self.comes_after_end(id, &input.chunk) {
            return Err(internal());
        }
        if self.is_paused(id) {
            self.wait(id)?;
            self.keep(id, input, 0)?;
            return Ok(Step::More);
        }
        self.read_input(id, input)
    }

    // Returns whether bytes of a stream come after its end, up to which it is still to be read.
    fn comes_after_end(&self, id: u64, chunk: &Chunk<'_>) -> bool
        ensures { result ≡ false → ends_in (stream_at self.now id) ≡ true → length chunk.now.bytes.now ≤ 0 }
    {
        match self.streams.get(&id) {
            Some(entry) => entry.reading.has_end() && chunk.len() > 0,
            None => false,
        }
    }

    // Notes whether the end of the peer's half of a stream came.
    #[tactic(auto, using(crate::proofs::KeepsLemmas::keep, crate::proofs::PlaceLemmas::ordered, crate::proofs::JoinedLemmas::joined, crate::proofs::SeveredLemmas::stays_ended))]
    fn note_end(&mut self, id: u64, is_last: bool)
        ensures keeps { Keeps [] self.old self.new }
    {
        if !is_last {
            return;
        }
        if let Some(entry) = self.streams.get_mut(&id) {
            entry.is_ended = true;
        }
    }

    // Drops bytes of a stream that is not read.
    #[tactic(auto, using(crate::proofs::KeepsLemmas::keep, crate::proofs::KeepsLemmas::keeps_left, crate::proofs::TellsLemmas::dropped_same))]
    fn drop_input<'a>(&mut self, id: u64, input: &mut Input<'a>) -> Result<(), AllocError>
        ensures keeps { Keeps [] self.old self.new }
        ensures same { input.old.report ≡ report.Stream id → theirs_at self.old.streams.entries id ≡ Gone
            → OnOk result (Same self.old.streams.entries input.old self.new.streams.entries input.new) }
    {
        self.end_dropped(id, input.chunk.is_last())?;
        input.drop_rest();
        input.report = Report::Nothing;
        Ok(())
    }

    // The end of a half of the peer that is not read may have come: then the half is over.
    #[tactic(auto, using(crate::proofs::KeepsLemmas::keep, crate::proofs::KeepsLemmas::keeps_gone))]
    fn end_dropped(&mut self, id: u64, is_last: bool) -> Result<(), AllocError>
        ensures keeps { Keeps [] self.old self.new }
    {
        if !is_last {
            return Ok(());
        }
        self.forget_stop(id);
        if self.peer_of(id) == Peer::Drops {
            return self.peer_is_over(id);
        }
        Ok(())
    }

    // Reads what is next in bytes of a stream.
    #[tactic(auto, using(crate::proofs::ActLemmas::act, crate::proofs::KeepsOwnLemmas::hold, crate::proofs::BoundLemmas::bound, crate::proofs::BoundLemmas::bound_left))]
    fn read_input<'a>(&mut self, id: u64, input: &mut Input<'a>) -> Result<Step<'a>, Stop>
        ensures keeps { KeepsOwn (said_by result) self.old self.new }
        ensures works { OnOk result (WorksOn self.old self.new) }
        ensures tells { input.old.report ≡ report.Stream id → IfOk result (λ s. Tells (told_in s)
            self.old.streams.entries input.old self.new.streams.entries input.new) }
        ensures bounded { OnOk result (KeepsBound self.old self.new) }
    {
        let len = input.chunk.len();
        let heard = self.read(id, &mut input.chunk)?;
        input.count(len);
        match heard {
            None => Ok(Step::More),
            Some(heard) => self.heard_in_input(id, heard, input),
        }
    }

    // Handles what was heard in bytes of a stream.
    #[tactic(auto, using(crate::proofs::ActLemmas::act, crate::proofs::KeepsOwnLemmas::hold, crate::proofs::TellsLemmas::same_more_passes, crate::proofs::TellsLemmas::left_more_passes, crate::proofs::ReadsLemmas::hands_passes, crate::proofs::BoundLemmas::bound, crate::proofs::BoundLemmas::bound_left))]
    pub(super) fn heard_in_input<'a>(
        &mut self,
        id: u64,
        heard: Heard<'a>,
        input: &mut Input<'a>,
    ) -> Result<Step<'a>, Stop>
        ensures keeps { KeepsOwn (said_by result) self.old self.new }
        ensures works { OnOk result (WorksOn self.old self.new) }
        ensures passes { input.old.report ≡ report.Stream id
            → IfOk result (λ s. Passes id (items_in heard.entry) (told_in s)
            self.old.streams.entries input.old self.new.streams.entries input.new) }
        ensures bounded { OnOk result (KeepsBound self.old self.new) }
    {
        match heard {
            Heard::Event(Said::More) => {
                self.keep(id, input, usize::MAX)?;
                self.credit_kept(id)?;
                Ok(Step::More)
            }
            Heard::Event(Said::Waits(wait)) => {
                self.wait_for(id, wait)?;
                let room = self.room_to_wait(id);
                self.keep(id, input, room)?;
                Ok(Step::More)
            }
            heard => self.heard(id, heard),
        }
    }

    // Reads what is kept of a stream.
    #[tactic(auto, using(crate::proofs::ActLemmas::act, crate::proofs::KeepsOwnLemmas::hold))]
    pub(super) fn read_kept<'a>(&mut self, id: u64) -> Result<Step<'a>, Stop>
        ensures keeps { KeepsOwn (said_by result) self.old self.new }
        ensures works { OnOk result (WorksOn self.old self.new) }
        ensures tells { IfOk result (λ s. TellsKept (told_in s) self.old.streams.entries self.new.streams.entries) }
    {
        if !self.is_read(id) || self.is_paused(id) {
            self.pending.resumed = None;
            return Ok(Step::More);
        }
        match self.read_rest(id)? {
            None => Ok(Step::More),
            Some(heard) => self.heard_in_kept(id, heard),
        }
    }

    // Handles what was heard in what is kept of a stream.
    #[tactic(auto, using(crate::proofs::ActLemmas::act, crate::proofs::KeepsOwnLemmas::hold, crate::proofs::TellsLemmas::more_hands))]
    fn heard_in_kept<'a>(&mut self, id: u64, heard: Heard<'a>) -> Result<Step<'a>, Stop>
        ensures keeps { KeepsOwn (said_by result) self.old self.new }
        ensures works { OnOk result (WorksOn self.old self.new) }
        ensures hands { IfOk result (λ s. Hands id (items_in heard.entry) (told_in s)
            self.old.streams.entries self.new.streams.entries) }
    {
        match heard {
            Heard::Event(Said::More) => {
                self.pending.resumed = None;
                self.waiting.remove(&id);
                self.credit_kept(id)?;
                Ok(Step::More)
            }
            Heard::Event(Said::Waits(wait)) => {
                self.wait_for(id, wait)?;
                self.pending.resumed = None;
                Ok(Step::More)
            }
            heard => self.heard(id, heard),
        }
    }

    // Returns what is heard next in what is kept of a stream.
    #[tactic(auto, using(crate::proofs::ActLemmas::act, crate::proofs::KeepsOwnLemmas::hold))]
    fn read_rest<'a>(&mut self, id: u64) -> Result<Option<Heard<'a>>, Stop>
        ensures keeps { KeepsOwn [] self.old self.new }
        ensures works { OnOk result (WorksOn self.old self.new) }
        ensures reads { IfOk result (λ heard. ReadsKept id (items_by heard)
            self.old.streams.entries self.new.streams.entries) }
    {
        let mut nothing = Chunk::new(&[], false);
        let heard = self.read(id, &mut nothing)?;
        if is_nothing(&nothing) {
            Ok(heard)
        } else {
            Err(internal())
        }
    }

    // Returns what is heard next on a stream: nothing yet, if more of its bytes are to be looked at.
    #[tactic(auto, using(crate::proofs::ActLemmas::act, crate::proofs::KeepsOwnLemmas::hold, crate::proofs::TellsLemmas::reads_left, crate::proofs::TellsLemmas::left_reads, crate::proofs::BoundLemmas::bound, crate::proofs::BoundLemmas::bound_left))]
    fn read<'a>(&mut self, id: u64, chunk: &mut Chunk<'a>) -> Result<Option<Heard<'a>>, Stop>
        ensures keeps { KeepsOwn [] self.old self.new }
        ensures works { OnOk result (WorksOn self.old self.new) }
        ensures reads { IfOk result (λ heard. ReadsOn id (items_by heard) self.old.streams.entries chunk.old
            self.new.streams.entries chunk.new) }
        ensures bounded { OnOk result (KeepsBound self.old self.new) }
    {
        if let Some(session) = self.session_awaited(id) {
            let event = self.join(id, session)?;
            return Ok(Some(Heard::Event(event)));
        }
        let (found, owed) = self.look(id, chunk)?;
        self.credit(id, owed)?;
        match found {
            Found::Heard(heard) => Ok(Some(heard)),
            Found::Again => Ok(None),
        }
    }

    // Returns what is found next on a stream, and by how many bytes QUIC's windows are then to be extended.
    #[tactic(auto, using(crate::proofs::ActLemmas::act, crate::proofs::KeepsOwnLemmas::hold, crate::proofs::KeepsOwnLemmas::holds_looked, crate::proofs::ActLemmas::act_looked, crate::proofs::ActLemmas::reads_here, crate::proofs::ActLemmas::reads_none, crate::proofs::LookLemmas::reads_set, crate::proofs::TellsLemmas::left_reads, crate::proofs::StepLemmas::left_itself, crate::proofs::BoundLemmas::bound, crate::proofs::PlaceLemmas::ordered, crate::proofs::JoinedLemmas::joined))]
    fn look<'a>(&mut self, id: u64, chunk: &mut Chunk<'a>) -> Result<(Found<'a>, usize), Stop>
        ensures keeps { KeepsOwn [] self.old self.new }
        ensures works { OnOk result (WorksOn self.old self.new) }
        ensures reads { IfOk result (λ r. ReadsOn id (items_found r.0) self.old.streams.entries chunk.old
            self.new.streams.entries chunk.new) }
        ensures table { IfOk result (λ r. MayRead id (theirs_at self.old.streams.entries id)
            (theirs_at self.new.streams.entries id) (table_of self.old) (table_of self.new)) }
        ensures bounded { OnOk result (KeepsBound self.old self.new) }
    {
        let Some(entry) = self.streams.get_mut(&id) else {
            return Ok((Found::Again, 0));
        };
        let before = entry.credited();
        let kept = entry.reading.len();
        let len = chunk.len();
        let found = entry.look(
            id,
            self.alloc,
            &mut self.shared,
            &mut self.fields,
            &mut self.told,
            chunk,
        )?;
        let owed = entry.count_looked(&found, kept, len, chunk.len());
        let after = entry.credited();
        self.held = fewer(self.held, before, after);
        Ok((found, owed))
    }

    // Keeps the bytes of the input, whose stream needs more, waits or is paused. QUIC's windows are extended by at most
    // `most` of them.
    #[tactic(auto, using(crate::proofs::ActLemmas::act, crate::proofs::KeepsOwnLemmas::holds_refl, crate::proofs::TellsLemmas::same_left, crate::proofs::BoundLemmas::bound_only))]
    fn keep<'a>(&mut self, id: u64, input: &mut Input<'a>, most: usize) -> Result<(), Stop>
        ensures keeps { KeepsOwn [] self.old self.new }
        ensures works { OnOk result (WorksOn self.old self.new) }
        ensures same { input.old.report ≡ report.Stream id
            → OnOk result (Same self.old.streams.entries input.old self.new.streams.entries input.new) }
        ensures bounded { OnOk result (KeepsBound self.old self.new) }
    {
        let credit = input.chunk.len().min(most);
        if !self.has_room_to_hold(credit) {
            return Err(Stop::from(EXCESSIVE_LOAD));
        }
        self.keep_input(id, input, credit)?;
        self.check_kept(id)
    }

    // Keeps the bytes of the input, however many are kept of the stream already. QUIC's windows are extended by so many.
    #[tactic(auto, using(crate::proofs::ActLemmas::act, crate::proofs::ActLemmas::act_kept, crate::proofs::KeepsOwnLemmas::holds_refl, crate::proofs::KeepsOwnLemmas::holds_looked, crate::proofs::LookLemmas::keep_set, crate::proofs::TellsLemmas::only_set, crate::proofs::TellsLemmas::only_none, crate::proofs::PlaceLemmas::ordered, crate::proofs::JoinedLemmas::joined))]
    fn keep_input<'a>(&mut self, id: u64, input: &mut Input<'a>, credit: usize) -> Result<(), Stop>
        requires { self.old.held + credit ≤ self.old.config.receive_buffer_all }
        ensures keeps { KeepsOwn [] self.old self.new }
        ensures works { OnOk result (WorksOn self.old self.new) }
        ensures same { input.old.report ≡ report.Stream id
            → OnOk result (Same self.old.streams.entries input.old self.new.streams.entries input.new) }
        ensures only { OnlyAt id self.old.streams.entries self.new.streams.entries }
    {
        if self.comes_after_end(id, &input.chunk) {
            return Err(internal());
        }
        let Some(entry) = self.streams.get_mut(&id) else {
            input.report = Report::Nothing;
            return Ok(());
        };
        let len = input.chunk.len();
        entry.reading.keep(&mut input.chunk)?;
        input.report = Report::Nothing;
        entry.withheld = entry.withheld.saturating_add(len.saturating_sub(credit));
        input.credit = input.credit.saturating_add(credit);
        self.held = self.held.saturating_add(credit);
        Ok(())
    }

    // Extends QUIC's windows by all that is kept of a stream: it is a frame that is cut, and the rest is to come.
    #[tactic(auto, using(crate::proofs::ActLemmas::act, crate::proofs::KeepsOwnLemmas::hold, crate::proofs::StepLemmas::left_trans))]
    fn credit_kept(&mut self, id: u64) -> Result<(), Stop>
        ensures keeps { KeepsOwn [] self.old self.new }
        ensures works { OnOk result (WorksOn self.old self.new) }
        ensures left { Left self.old.streams.entries self.new.streams.entries }
    {
        let owed = self.take_withheld(id);
        if owed == 0 {
            return Ok(());
        }
        self.credit_held(id, owed)?;
        self.check_kept(id)
    }

    // Holds nothing of a stream back any more. Returns how many bytes were.
    #[tactic(auto, using(crate::proofs::KeepsLemmas::keep, crate::proofs::PlaceLemmas::ordered, crate::proofs::JoinedLemmas::joined))]
    fn take_withheld(&mut self, id: u64) -> usize
        ensures keeps { Keeps [] self.old self.new }
    {
        let Some(entry) = self.streams.get_mut(&id) else {
            return 0;
        };
        let owed = entry.withheld;
        entry.withheld = 0;
        owed
    }

    // Extends QUIC's windows by bytes of a stream that were held back, and counts them as kept, if as many may be.
    #[tactic(auto, using(crate::proofs::KeepsLemmas::keep, crate::proofs::LimitLemmas::with_held))]
    fn credit_held(&mut self, id: u64, owed: usize) -> Result<(), Stop>
        ensures keeps { Keeps [] self.old self.new }
    {
        if !self.has_room_to_hold(owed) {
            return Err(Stop::from(EXCESSIVE_LOAD));
        }
        self.held = self.held.saturating_add(owed);
        Ok(self.credit(id, owed)?)
    }

    // Checks the bounds of what is kept of a stream.
    #[tactic(auto, using(crate::proofs::ActLemmas::act, crate::proofs::KeepsOwnLemmas::hold, crate::proofs::BoundLemmas::gone_fits, crate::proofs::StepLemmas::left_trans))]
    fn check_kept(&mut self, id: u64) -> Result<(), Stop>
        ensures keeps { KeepsOwn [] self.old self.new }
        ensures works { OnOk result (WorksOn self.old self.new) }
        ensures left { Left self.old.streams.entries self.new.streams.entries }
        ensures fits { OnOk result (Fits (most_kept self.old.config) (theirs_at self.new.streams.entries id)) }
    {
        if self.has_room_for_kept(id) {
            return Ok(());
        }
        let fault = self.overflow(id);
        self.overflowed(id, fault)
    }

    // Returns whether no more of a stream is kept than may be.
    #[tactic(auto, using(crate::proofs::BoundLemmas::kept_fits))]
    fn has_room_for_kept(&self, id: u64) -> bool
        ensures { result ≡ true → Fits (most_kept self.now.config) (theirs_at self.now.streams.entries id) }
    {
        let Some(entry) = self.streams.get(&id) else {
            return true;
        };
        let fits = entry.credited() <= self.config.receive_buffer;
        fits && entry.withheld <= self.config.max_paused
    }

    // More of a stream is kept than may be. Returns the fault.
    #[tactic(auto, using(crate::proofs::KeepsLemmas::keep, crate::proofs::KeepsLemmas::keeps_turned, crate::proofs::PlaceLemmas::ordered, crate::proofs::JoinedLemmas::joined))]
    fn overflow(&mut self, id: u64) -> Joining
        ensures keeps { Keeps [] self.old self.new }
    {
        let Some(entry) = self.streams.get_mut(&id) else {
            return Joining::Nothing;
        };
        joining_of(&entry.reading.overflow(&mut self.shared))
    }

    // Handles what is said of a stream of which more is kept than may. It is read no further.
    fn overflowed(&mut self, id: u64, fault: Joining) -> Result<(), Stop>
        ensures keeps { Keeps [] self.old self.new }
        ensures gone { OnOk result (theirs_at self.new.streams.entries id ≡ Gone) }
    {
        match fault {
            Joining::Refused(fault) => Ok(self.shut(id, fault.code(), Why::Fault(fault))?),
            Joining::Broken(fault) => Err(Stop::from(fault)),
            _ => self.drop_untold(id),
        }
    }

    // Passes what came on the decoder stream of the peer to the own encoder.
    #[tactic(auto, using(crate::proofs::KeepsLemmas::keep, crate::proofs::TellsLemmas::dropped_same))]
    fn read_decoder_stream<'a>(&mut self, id: u64, input: &mut Input<'a>) -> Result<(), Stop>
        ensures keeps { Keeps [] self.old self.new }
        ensures same { input.old.report ≡ report.Stream id → theirs_at self.old.streams.entries id ≡ Gone
            → OnOk result (Same self.old.streams.entries input.old self.new.streams.entries input.new) }
        ensures report { input.new.report ≡ input.old.report }
    {
        match self
            .tools
            .encoder
            .read_decoder_stream(input.chunk.as_slice())
        {
            Ok(()) => {
                self.count_read(id, input.chunk.len());
                input.drop_rest();
                Ok(())
            }
            Err(error) => match error.code() {
                Some(_code) => Err(Stop::from(Fault::Streams(StreamsFault::DecoderStream))),
                None => Err(internal()),
            },
        }
    }

    // Returns what is done with the peer's half of a stream.
    pub(super) fn peer_of(&self, id: u64) -> Peer
        ensures { result ≡ peers.Drops → theirs_at self.now.streams.entries id ≡ Gone }
    {
        match self.streams.get(&id) {
            Some(entry) => entry.peer,
            None => Peer::Over,
        }
    }

    // Returns whether the peer's half of a stream is read.
    fn is_read(&self, id: u64) -> bool
        ensures { result ≡ false → theirs_at self.now.streams.entries id ≡ Gone }
    {
        match self.streams.get(&id) {
            Some(entry) => entry.is_read(),
            None => false,
        }
    }

    // Returns whether a stream is the peer's decoder stream.
    fn is_decoder(&self, id: u64) -> bool
        ensures { result ≡ true → theirs_at self.now.streams.entries id ≡ Gone }
    {
        match self.streams.get(&id) {
            Some(entry) => entry.is_decoder,
            None => false,
        }
    }
}

// Returns how many bytes are kept of all streams, where fewer are of one than before.
pub(super) fn fewer(held: usize, before: usize, after: usize) -> usize
    ensures { result ≤ held }
{
    held.saturating_sub(before.saturating_sub(after))
}

// Returns whether no bytes are left, and no end.
fn is_nothing(chunk: &Chunk<'_>) -> bool
    ensures { result ≡ true → (length chunk.now.bytes.now ≤ 0) × (chunk.now.fin ≡ false) }
{
    chunk.len() == 0 && !chunk.is_last()
}
