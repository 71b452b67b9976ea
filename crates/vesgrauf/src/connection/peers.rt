//! The peer's halves that end, or are read no further.
ghost use Rattle.std.specs.Prelude.{◌≡◌, ℕ, Bool, [], ◌∷◌, true, IfOk, OnOk};
ghost use Rattle.vesgrauf_stream.specs.declared.reading.Reading.{Reading as ReadingOf};
ghost use Rattle.vesgrauf.specs.Items.{Ends};
ghost use Rattle.vesgrauf.specs.Cuts.{Alone, Asks};
ghost use Rattle.vesgrauf.specs.Keeps.{Keeps, KeepsBut};
ghost use Rattle.vesgrauf.specs.State.{stream_at, knows_of};
ghost use Rattle.vesgrauf.specs.Theirs.{Gone, Hands, IsOf, theirs_at, theirs_by, told_in};
ghost use Rattle.vesgrauf.specs.Told.{said_by, said_in};

use crate::connection::reading::fewer;
use crate::connection::{Connection, Step, Stop, internal};
use crate::entry::Peer;
use crate::event::{Event, EventKind};
use crate::output::Output;
use std::alloc::AllocError;
use wtp_core::error::Code;

#[tactic(auto, using(crate::proofs::KeepsLemmas::keep))]
impl Connection {
    // The peer's half ended.
    #[tactic(auto, using(crate::proofs::KeepsLemmas::keep, crate::proofs::KeepsLemmas::keeps_left, crate::proofs::TellsLemmas::told_or_gone))]
    pub(super) fn end_came(&mut self, id: u64) -> Result<Step<'static>, Stop>
        ensures keeps { Keeps (said_by result) self.old self.new }
        ensures hands { IfOk result (λ s. Hands id (Ends ∷ []) (told_in s)
            self.old.streams.entries self.new.streams.entries) }
    {
        let step = self.tell_end(id);
        self.after_told_end(id);
        Ok(step)
    }

    // All of the peer's half was read, and its end is told. Without memory the connection ends: nothing would do what is left
    // to do later.
    #[tactic(auto, using(crate::proofs::KeepsLemmas::keep, crate::proofs::KeepsLemmas::keeps_gone))]
    fn after_told_end(&mut self, id: u64)
        ensures keeps { theirs_at self.old.streams.entries id ≡ Gone → Keeps [] self.old self.new }
        ensures gone { theirs_at self.old.streams.entries id ≡ Gone → theirs_at self.new.streams.entries id ≡ Gone }
    {
        let code = Code::H3_INTERNAL_ERROR.number().into_inner();
        if self.half_ends(id).is_err() {
            self.fail(Some(id), code, None);
        }
    }

    // Tells that the peer's half ended, which is read no further.
    #[tactic(auto, using(crate::proofs::KeepsLemmas::keep, crate::proofs::KeepsLemmas::keeps_end, crate::proofs::TellsLemmas::gone_set, crate::proofs::PlaceLemmas::ordered, crate::proofs::JoinedLemmas::joined, crate::proofs::SeveredLemmas::stays_gone))]
    fn tell_end(&mut self, id: u64) -> Step<'static>
        ensures keeps { Keeps (said_in result) self.old self.new }
        ensures is { IsOf id (Ends ∷ []) result }
        ensures gone { theirs_at self.new.streams.entries id ≡ Gone }
    {
        let Some(entry) = self.streams.get_mut(&id) else {
            return Step::More;
        };
        entry.peer = dropped(entry.peer);
        if !entry.is_known() {
            return Step::More;
        }
        Step::Told(Event {
            stream: id,
            session: entry.session_shown(id),
            user: entry.user,
            kind: EventKind::End,
        })
    }

    // All of the peer's half was read.
    #[tactic(auto, using(crate::proofs::KeepsLemmas::keep, crate::proofs::KeepsLemmas::keeps_gone))]
    fn half_ends(&mut self, id: u64) -> Result<(), AllocError>
        ensures keeps { theirs_at self.old.streams.entries id ≡ Gone → Keeps [] self.old self.new }
    {
        self.forget_cancel(id);
        self.peer_is_over(id)
    }

    // All sections of a stream were read.
    #[tactic(auto, using(crate::proofs::CancelLemmas::keeps_spent, crate::proofs::KeepsLemmas::keeps_refl, crate::proofs::PlaceLemmas::ordered, crate::proofs::JoinedLemmas::joined))]
    fn forget_cancel(&mut self, id: u64)
        ensures keeps { Keeps [] self.old self.new }
    {
        if let Some(entry) = self.streams.get_mut(&id) {
            entry.may_cancel = false;
        }
    }

    // Asks the peer to stop its half, which is read no further.
    #[tactic(auto, using(crate::proofs::KeepsLemmas::but, crate::proofs::CutLemmas::alone, crate::proofs::CutLemmas::asks))]
    pub(super) fn stop_peer(&mut self, id: u64, code: u64) -> Result<(), AllocError>
        ensures keeps { KeepsBut id self.old self.new }
        ensures alone { Alone id self.old self.new }
        ensures asks { Asks id code self.old.outputs.items self.new.outputs.items }
        ensures gone { OnOk result (theirs_at self.new.streams.entries id ≡ Gone) }
    {
        if self.is_peer_over(id) {
            return Ok(());
        }
        self.ask_stop(id, code)?;
        self.give_up_peer(id, true)
    }

    // Gives up what waits on the peer's half, which is read no further.
    #[tactic(auto, using(crate::proofs::KeepsLemmas::but, crate::proofs::CutLemmas::alone, crate::proofs::CutLemmas::asks))]
    fn give_up_peer(&mut self, id: u64, is_over: bool) -> Result<(), AllocError>
        ensures keeps { KeepsBut id self.old self.new }
        ensures alone { Alone id self.old self.new }
        ensures asks { (code : ℕ) → Asks id code self.old.outputs.items self.new.outputs.items }
        ensures gone { OnOk result (theirs_at self.new.streams.entries id ≡ Gone) }
    {
        self.abandon(id);
        self.leave_peer(id, is_over)
    }

    // Asks the peer to stop its half, unless its end came, or QUIC closed the stream. QUIC is asked once it knows of the
    // stream.
    #[tactic(auto, using(crate::proofs::KeepsLemmas::keep, crate::proofs::CutLemmas::alone, crate::proofs::CutLemmas::asks_refl, crate::proofs::CutLemmas::asks_stop, crate::proofs::PlaceLemmas::ordered, crate::proofs::JoinedLemmas::joined))]
    fn ask_stop(&mut self, id: u64, code: u64) -> Result<(), AllocError>
        ensures keeps { Keeps [] self.old self.new }
        ensures alone { Alone id self.old self.new }
        ensures asks { Asks id code self.old.outputs.items self.new.outputs.items }
    {
        let Some(entry) = self.streams.get_mut(&id) else {
            return Ok(());
        };
        if entry.is_ended || entry.is_closed {
            return Ok(());
        }
        if !entry.is_opened {
            entry.stops = Some(code);
            return Ok(());
        }
        self.outputs.push_back(Output::StopSending(id, code))?;
        Ok(())
    }

    // Gives up what waits on the peer's half.
    #[tactic(auto, using(crate::proofs::KeepsLemmas::keep, crate::proofs::CutLemmas::alone, crate::proofs::KeepsLemmas::keeps_turned, crate::proofs::PlaceLemmas::ordered, crate::proofs::JoinedLemmas::joined))]
    fn abandon(&mut self, id: u64)
        ensures keeps { Keeps [] self.old self.new }
        ensures alone { Alone id self.old self.new }
        ensures outputs { self.new.outputs ≡ self.old.outputs }
    {
        if let Some(entry) = self.streams.get_mut(&id) {
            entry.reading.abandon(&mut self.shared);
        }
    }

    // There is nothing left to stop: the end of the peer's half came, or a reset.
    pub(super) fn forget_stop(&mut self, id: u64)
        ensures keeps { Keeps [] self.old self.new }
    {
        self.outputs.retain(|output| !is_stop(output, id));
    }

    // Reads the peer's half no further, whose end is still to come.
    #[tactic(auto, using(crate::proofs::KeepsLemmas::but, crate::proofs::CutLemmas::alone))]
    pub(super) fn drop_peer(&mut self, id: u64) -> Result<(), AllocError>
        ensures keeps { KeepsBut id self.old self.new }
        ensures alone { Alone id self.old self.new }
        ensures gone { OnOk result (theirs_at self.new.streams.entries id ≡ Gone) }
    {
        if self.is_peer_over(id) {
            return Ok(());
        }
        let is_over = self.has_ended(id);
        self.give_up_peer(id, is_over)
    }

    // Reads no further on a stream that the program does not know of, and forgets it if both halves are over.
    #[tactic(auto, using(crate::proofs::KeepsLemmas::keep, crate::proofs::KeepsLemmas::keeps_unknown, crate::proofs::KeepsLemmas::keeps_gone))]
    pub(super) fn drop_untold(&mut self, id: u64) -> Result<(), Stop>
        ensures keeps { Keeps [] self.old self.new }
        ensures gone { OnOk result (theirs_at self.new.streams.entries id ≡ Gone) }
    {
        if self.knows(id) {
            return Err(internal());
        }
        self.drop_peer(id)?;
        Ok(self.remove_if_done(id)?)
    }

    // Returns whether the program knows of a stream, and was not told that it is over.
    pub(super) fn knows(&self, id: u64) -> bool
        ensures { result ≡ knows_of (stream_at self.now id) }
    {
        match self.streams.get(&id) {
            Some(entry) => entry.is_known(),
            None => false,
        }
    }

    // Returns whether the peer's half is over.
    fn is_peer_over(&self, id: u64) -> bool
        ensures gone { result ≡ true → theirs_at self.now.streams.entries id ≡ Gone }
    {
        match self.streams.get(&id) {
            Some(entry) => matches!(entry.peer, Peer::Over),
            None => true,
        }
    }

    // Returns whether the end of the peer's half came.
    fn has_ended(&self, id: u64) -> bool {
        match self.streams.get(&id) {
            Some(entry) => entry.is_ended,
            None => false,
        }
    }

    // The peer's half is read no further: it is over, or what comes is dropped until its end. What is kept of it is dropped.
    #[tactic(auto, using(crate::proofs::KeepsLemmas::but, crate::proofs::KeepsLemmas::keeps_gone, crate::proofs::CutLemmas::alone, crate::proofs::CutLemmas::asks))]
    fn leave_peer(&mut self, id: u64, is_over: bool) -> Result<(), AllocError>
        ensures keeps { KeepsBut id self.old self.new }
        ensures alone { Alone id self.old self.new }
        ensures asks { (code : ℕ) → Asks id code self.old.outputs.items self.new.outputs.items }
        ensures still { theirs_at self.old.streams.entries id ≡ Gone → Keeps [] self.old self.new }
        ensures gone { theirs_at self.new.streams.entries id ≡ Gone }
    {
        self.waiting.remove(&id);
        let owed = self.drop_half(id, is_over);
        self.credit(id, owed)
    }

    // Drops what is kept of the peer's half, which is read no further. Returns by how many bytes QUIC's windows are to be
    // extended for it.
    #[tactic(auto, using(crate::proofs::KeepsLemmas::keep, crate::proofs::KeepsLemmas::keeps_but_set, crate::proofs::KeepsLemmas::keeps_gone_set, crate::proofs::CutLemmas::alone, crate::proofs::TellsLemmas::gone_set, crate::proofs::PlaceLemmas::ordered, crate::proofs::JoinedLemmas::joined, crate::proofs::SeveredLemmas::stays_gone))]
    fn drop_half(&mut self, id: u64, is_over: bool) -> usize
        ensures keeps { KeepsBut id self.old self.new }
        ensures alone { Alone id self.old self.new }
        ensures outputs { self.new.outputs ≡ self.old.outputs }
        ensures still { theirs_at self.old.streams.entries id ≡ Gone → Keeps [] self.old self.new }
        ensures gone { theirs_at self.new.streams.entries id ≡ Gone }
    {
        let Some(entry) = self.streams.get_mut(&id) else {
            return 0;
        };
        entry.peer = left_as(is_over);
        let before = entry.credited();
        entry.reading.drop_kept();
        let owed = entry.withheld;
        entry.withheld = 0;
        self.held = fewer(self.held, before, 0);
        owed
    }

    // Extends QUIC's windows by bytes that had waited.
    #[tactic(auto, using(crate::proofs::KeepsLemmas::keep, crate::proofs::CutLemmas::alone_refl, crate::proofs::CutLemmas::asks_refl, crate::proofs::CutLemmas::asks_credit))]
    pub(super) fn credit(&mut self, id: u64, len: usize) -> Result<(), AllocError>
        ensures keeps { Keeps [] self.old self.new }
        ensures alone { Alone id self.old self.new }
        ensures asks { (code : ℕ) → Asks id code self.old.outputs.items self.new.outputs.items }
    {
        if len > 0 {
            self.outputs.push_back(Output::Credit(id, len))?;
        }
        Ok(())
    }

    // The peer's half is over, which is read no further.
    pub(super) fn peer_is_over(&mut self, id: u64) -> Result<(), AllocError>
        ensures keeps { theirs_at self.old.streams.entries id ≡ Gone → Keeps [] self.old self.new }
    {
        self.leave_peer(id, true)?;
        self.remove_if_done(id)
    }
}

// Returns what becomes of a half of the peer that is read no further, and whose end is known of.
pub(super) fn dropped(peer: Peer) -> Peer
    ensures { (is_decoder : Bool) (r : ReadingOf) → theirs_by result is_decoder r ≡ Gone }
{
    match peer {
        Peer::Reads | Peer::Drops => Peer::Drops,
        Peer::Over => Peer::Over,
    }
}

// Returns what becomes of a half of the peer that is read no further.
fn left_as(is_over: bool) -> Peer
    ensures { (is_decoder : Bool) (r : ReadingOf) → theirs_by result is_decoder r ≡ Gone }
{
    if is_over { Peer::Over } else { Peer::Drops }
}

// Returns whether this asks to stop this stream.
fn is_stop(output: &Output, id: u64) -> bool {
    match output {
        Output::StopSending(stopped, _) => *stopped == id,
        _ => false,
    }
}
