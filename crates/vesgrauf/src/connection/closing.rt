//! Streams that are closed.
ghost use Rattle.std.specs.Prelude.{◌≡◌, ◌⊎◌, [], true, false, not, None, OnOk};
ghost use Rattle.vesgrauf.specs.Cuts.{Alone, AreCut, Asks, IsOwnOver, is_over_in, is_read_out};
ghost use Rattle.vesgrauf.specs.Joined.{AreSevered};
ghost use Rattle.vesgrauf.specs.Members.{DropsAt};
ghost use Rattle.vesgrauf.specs.Own.{Over, EndsOwn, entry_at, is_sent, own_at};
ghost use Rattle.vesgrauf.specs.Keeps.{Keeps, KeepsBut};
ghost use Rattle.vesgrauf.specs.State.{stream_at, knows_of};
ghost use Rattle.vesgrauf.specs.Told.{ended_at};
ghost use Rattle.vesgrauf.specs.Theirs.{Gone, theirs_at};

use crate::code::StreamCode;
use crate::connection::Connection;
use crate::connection::placing::{give_place, keep_place, take_place};
use crate::entry::{Entry, Peer, Told};
use crate::event::{Event, EventKind, Why};
use crate::output::Output;
use std::alloc::AllocError;
use wtp_connection::connection::Known;
use wtp_core::error::Code;

/// The status of the answer that a CONNECT request gets by a reset: what follows it is read as of one that is refused.
const REFUSED: u32 = 500;

#[tactic(auto, using(crate::proofs::KeepsLemmas::keep))]
impl Connection {
    // Closes both halves of a stream at once. The program is told first: what ends then is over for it, also if memory is
    // refused meanwhile.
    #[tactic(auto, using(crate::proofs::KeepsLemmas::keep, crate::proofs::KeepsLemmas::keeps_gone))]
    pub(super) fn shut(&mut self, id: u64, code: Code, why: Why) -> Result<(), AllocError>
        ensures keeps { Keeps [] self.old self.new }
        ensures cut { OnOk result (AreCut id self.old.streams.entries self.new.streams.entries) }
        ensures gone { OnOk result (theirs_at self.new.streams.entries id ≡ Gone) }
    {
        self.end_session(id)?;
        self.tell_closed(id, why)?;
        self.end_left(id, code.number().into_inner())?;
        self.leave(id)
    }

    // Tells the program that a stream is over, and why, if it knows of the stream.
    #[tactic(auto, using(crate::proofs::KeepsLemmas::keep, crate::proofs::CutLemmas::alone))]
    pub(super) fn tell_closed(&mut self, id: u64, why: Why) -> Result<(), AllocError>
        ensures keeps { Keeps [] self.old self.new }
        ensures alone { Alone id self.old self.new }
        ensures done { OnOk result (knows_of (stream_at self.new id) ≡ false) }
    {
        self.tell_failure(id, &why)?;
        self.closed(id, why)
    }

    // Ends both halves of a stream that is over for the program.
    #[tactic(auto, using(crate::proofs::KeepsLemmas::keeps_unknown))]
    pub(super) fn end_left(&mut self, id: u64, code: u64) -> Result<(), AllocError>
        ensures keeps { knows_of (stream_at self.old id) ≡ false → Keeps [] self.old self.new }
        ensures alone { Alone id self.old self.new }
        ensures own { OnOk result (IsOwnOver (entry_at self.new.streams.entries id)) }
        ensures asks { Asks id code self.old.outputs.items self.new.outputs.items }
        ensures gone { OnOk result (theirs_at self.new.streams.entries id ≡ Gone) }
    {
        self.end_halves(id, code)
    }

    // Ends both halves of a stream.
    #[tactic(auto, using(crate::proofs::KeepsLemmas::but, crate::proofs::CutLemmas::alone, crate::proofs::CutLemmas::stays, crate::proofs::CutLemmas::asks))]
    pub(super) fn end_halves(&mut self, id: u64, code: u64) -> Result<(), AllocError>
        ensures keeps { KeepsBut id self.old self.new }
        ensures alone { Alone id self.old self.new }
        ensures own { OnOk result (IsOwnOver (entry_at self.new.streams.entries id)) }
        ensures asks { Asks id code self.old.outputs.items self.new.outputs.items }
        ensures gone { OnOk result (theirs_at self.new.streams.entries id ≡ Gone) }
    {
        self.reset_own(id, code)?;
        self.reset_session(id, code)?;
        self.stop_peer(id, code)
    }

    // Forgets a stream that is left, if both halves are over.
    #[tactic(auto, using(crate::proofs::KeepsLemmas::keep, crate::proofs::CutLemmas::alone))]
    pub(super) fn leave(&mut self, id: u64) -> Result<(), AllocError>
        ensures keeps { Keeps [] self.old self.new }
        ensures alone { Alone id self.old self.new }
    {
        self.cancel_left(id);
        self.forget_if_done(id)
    }

    // Resets the own half.
    #[tactic(auto, using(crate::proofs::KeepsLemmas::but, crate::proofs::KeepsLemmas::keeps_ends, crate::proofs::CutLemmas::alone, crate::proofs::CutLemmas::asks))]
    pub(super) fn reset_own(&mut self, id: u64, code: u64) -> Result<(), AllocError>
        ensures keeps { KeepsBut id self.old self.new }
        ensures alone { Alone id self.old self.new }
        ensures own { OnOk result (IsOwnOver (entry_at self.new.streams.entries id)) }
        ensures asks { Asks id code self.old.outputs.items self.new.outputs.items }
        ensures ends { OnOk result (EndsOwn id self.old.streams.entries self.new.streams.entries) }
    {
        if self.reset_half(id, code)? {
            self.wake();
        }
        Ok(())
    }

    // Resets the own half of a session's own stream of which QUIC took the end: more may not come after a close of the peer
    // (draft-ietf-webtrans-http3-02, section 5).
    #[tactic(auto, using(crate::proofs::KeepsLemmas::but, crate::proofs::CutLemmas::alone, crate::proofs::CutLemmas::asks))]
    fn reset_session(&mut self, id: u64, code: u64) -> Result<(), AllocError>
        ensures keeps { KeepsBut id self.old self.new }
        ensures alone { Alone id self.old self.new }
        ensures asks { Asks id code self.old.outputs.items self.new.outputs.items }
    {
        if self.is_session(id) {
            self.reset_ended(id, code)?;
        }
        Ok(())
    }

    // Resets the own half, unless nothing is to be done for it. Returns whether something was.
    #[tactic(auto, using(crate::proofs::KeepsLemmas::but, crate::proofs::KeepsLemmas::keeps_over_own, crate::proofs::CutLemmas::alone, crate::proofs::CutLemmas::stays, crate::proofs::CutLemmas::asks, crate::proofs::CutLemmas::own_sent, crate::proofs::CutLemmas::own_reset))]
    fn reset_half(&mut self, id: u64, code: u64) -> Result<bool, AllocError>
        ensures keeps { KeepsBut id self.old self.new }
        ensures alone { Alone id self.old self.new }
        ensures own { OnOk result (IsOwnOver (entry_at self.new.streams.entries id)) }
        ensures asks { Asks id code self.old.outputs.items self.new.outputs.items }
        ensures ends { OnOk result (EndsOwn id self.old.streams.entries self.new.streams.entries) }
    {
        if !self.has_own(id) {
            return Ok(false);
        }
        self.reset_writing(id, code)?;
        self.leave_order(id);
        Ok(true)
    }

    // Returns whether something is to be done for the own half of a stream.
    fn has_own(&self, id: u64) -> bool
        ensures { result ≡ not (is_sent (stream_at self.now id)) }
    {
        match self.streams.get(&id) {
            Some(entry) => !entry.writing.is_done(),
            None => false,
        }
    }

    // Resets the own half, if it may be.
    #[tactic(auto, using(crate::proofs::KeepsLemmas::keep, crate::proofs::KeepsLemmas::keeps_but_set, crate::proofs::CutLemmas::alone, crate::proofs::CutLemmas::alone_over, crate::proofs::CutLemmas::asks, crate::proofs::CutLemmas::asks_reset, crate::proofs::OwnLemmas::own_set, std::proofs::lemmas::Map::Steps::set_value_same, crate::proofs::PlaceLemmas::ordered, crate::proofs::JoinedLemmas::joined, crate::proofs::PlaceLemmas::ordered_over, crate::proofs::QueuedLemmas::reset_quiet, crate::proofs::SeveredLemmas::stays_half, crate::proofs::SeveredLemmas::out_reset))]
    fn reset_writing(&mut self, id: u64, code: u64) -> Result<(), AllocError>
        ensures keeps { KeepsBut id self.old self.new }
        ensures alone { Alone id self.old self.new }
        ensures asks { Asks id code self.old.outputs.items self.new.outputs.items }
        ensures over { OnOk result (own_at self.new.streams.entries id ≡ Over) }
    {
        let Some(entry) = self.streams.get_mut(&id) else {
            return Ok(());
        };
        if !entry.writing.reset(&mut self.tools.spares, code, 0) {
            return Ok(());
        }
        self.ready.remove(id, entry.kind());
        entry.is_reset = true;
        if entry.is_opened {
            self.outputs.push_back(Output::Reset(id, code))?;
        }
        Ok(())
    }

    // Nothing more is sent on the own half of a stream. A request on it is refused.
    #[tactic(auto, using(crate::proofs::KeepsLemmas::keep, crate::proofs::CutLemmas::alone, crate::proofs::CutLemmas::read_set, crate::proofs::KeepsLemmas::keeps_turned, crate::proofs::PlaceLemmas::ordered, crate::proofs::JoinedLemmas::joined))]
    pub(super) fn leave_order(&mut self, id: u64)
        ensures keeps { Keeps [] self.old self.new }
        ensures alone { Alone id self.old self.new }
        ensures read { is_read_out (stream_at self.new id) ≡ is_read_out (stream_at self.old id) }
        ensures outputs { self.new.outputs ≡ self.old.outputs }
    {
        let Some(entry) = self.streams.get_mut(&id) else {
            return;
        };
        self.full.remove(&id);
        entry.reading.answer(REFUSED);
    }

    // Resets an own half of which QUIC took the end, unless all of it is acknowledged: QUIC may still send some of it (RFC
    // 9000, section 3.5). Returns whether it is reset.
    #[tactic(auto, using(crate::proofs::KeepsLemmas::but, crate::proofs::CutLemmas::alone, crate::proofs::CutLemmas::asks))]
    pub(super) fn reset_ended(&mut self, id: u64, code: u64) -> Result<(), AllocError>
        ensures keeps { KeepsBut id self.old self.new }
        ensures alone { Alone id self.old self.new }
        ensures asks { Asks id code self.old.outputs.items self.new.outputs.items }
    {
        if !self.may_reset_ended(id) {
            return Ok(());
        }
        self.reset_writing(id, code)
    }

    // Returns whether the own half of a stream may be reset of which QUIC took the end.
    pub(super) fn may_reset_ended(&self, id: u64) -> bool {
        let Some(entry) = self.streams.get(&id) else {
            return false;
        };
        let is_acked = self.config.keep_until_acked || self.config.bound_by_acked;
        let is_over = is_acked || entry.is_closed;
        !is_over && entry.writing.is_done() && entry.writing.is_finished()
    }

    // Resets the own half, as the peer asks or since its session is over. The program is told so, if it knows of the
    // stream. Without memory nothing changes.
    #[tactic(auto, using(crate::proofs::KeepsLemmas::keep, crate::proofs::KeepsLemmas::keeps_over_own, crate::proofs::CutLemmas::alone, crate::proofs::CutLemmas::asks))]
    pub(super) fn stop_own(
        &mut self,
        id: u64,
        code: u64,
        shown: StreamCode,
    ) -> Result<(), AllocError>
        ensures keeps { Keeps [] self.old self.new }
        ensures alone { Alone id self.old self.new }
        ensures over { OnOk result (own_at self.new.streams.entries id ≡ Over) }
        ensures read { is_read_out (stream_at self.new id) ≡ is_read_out (stream_at self.old id) }
        ensures asks { Asks id code self.old.outputs.items self.new.outputs.items }
    {
        self.tell_stopped(id, code, shown)?;
        self.leave_order(id);
        self.wake();
        Ok(())
    }

    // Resets the own half, and tells the program so, if it knows of the stream.
    #[tactic(auto, using(crate::proofs::KeepsLemmas::keep, crate::proofs::KeepsLemmas::keeps_stopped, crate::proofs::CutLemmas::alone, crate::proofs::CutLemmas::alone_over, crate::proofs::CutLemmas::asks, crate::proofs::CutLemmas::asks_reset, crate::proofs::CutLemmas::asks_popped, crate::proofs::CutLemmas::read_set, crate::proofs::OwnLemmas::own_set, crate::proofs::PlaceLemmas::ordered, crate::proofs::JoinedLemmas::joined, crate::proofs::PlaceLemmas::ordered_over, crate::proofs::QueuedLemmas::reset_quiet, crate::proofs::SeveredLemmas::stays_half, crate::proofs::SeveredLemmas::out_reset))]
    pub(super) fn tell_stopped(
        &mut self,
        id: u64,
        code: u64,
        shown: StreamCode,
    ) -> Result<(), AllocError>
        ensures keeps { Keeps [] self.old self.new }
        ensures alone { Alone id self.old self.new }
        ensures over { OnOk result (own_at self.new.streams.entries id ≡ Over) }
        ensures read { is_read_out (stream_at self.new id) ≡ is_read_out (stream_at self.old id) }
        ensures asks { Asks id code self.old.outputs.items self.new.outputs.items }
    {
        let Some(entry) = self.streams.get_mut(&id) else {
            return Ok(());
        };
        let was_reset = entry.writing.is_ended() && !entry.writing.is_finished();
        let is_told = entry.is_opened && !was_reset;
        if is_told {
            self.outputs.push_back(Output::Reset(id, code))?;
        }
        if entry.is_known() {
            let event = Event {
                stream: id,
                session: entry.session_shown(id),
                user: entry.user,
                kind: EventKind::Stopped(shown),
            };
            if self.events.push_back(event).is_err() {
                if is_told {
                    self.outputs.pop_back();
                }
                return Err(AllocError);
            }
        }
        entry.is_reset = true;
        if !entry.writing.reset(&mut self.tools.spares, code, 0) {
            return Ok(());
        }
        self.ready.remove(id, entry.kind());
        Ok(())
    }

    // Ends the own half of a CONNECT after what is queued, if the message may end there. Without memory it has its place in the
    // order of sending from the next step on.
    #[tactic(auto, using(crate::proofs::KeepsLemmas::keep, crate::proofs::KeepsLemmas::keeps_tried, crate::proofs::PlaceLemmas::ordered, crate::proofs::JoinedLemmas::joined, crate::proofs::PlaceLemmas::ordered_kept, crate::proofs::SeveredLemmas::stays_half, crate::proofs::SeveredLemmas::out_finished))]
    pub(super) fn end_own(&mut self, id: u64)
        ensures keeps { Keeps [] self.old self.new }
    {
        let Some(entry) = self.streams.get_mut(&id) else {
            return;
        };
        if !entry.writing.is_connect() || entry.writing.is_ended() {
            return;
        }
        if entry.has_more() {
            let _finished = entry.writing.finish();
            keep_place(&mut self.ready, id, entry);
            return;
        }
        match take_place(&mut self.ready, self.unplaced, id, entry) {
            Ok(later) => self.unplaced = later,
            Err(_) => return self.end_later(id),
        }
        let _finished = entry.writing.finish();
        keep_place(&mut self.ready, id, entry);
    }

    // Ends the own half of a CONNECT on which nothing waits, and which has its place in the order of sending later. (A step
    // first gives its place to the one before it.)
    #[tactic(auto, using(crate::proofs::KeepsLemmas::keep, crate::proofs::KeepsLemmas::keeps_tried, crate::proofs::PlaceLemmas::ordered, crate::proofs::JoinedLemmas::joined, crate::proofs::PlaceLemmas::ordered_later, crate::proofs::SeveredLemmas::stays_half, crate::proofs::SeveredLemmas::out_finished))]
    fn end_later(&mut self, id: u64)
        ensures keeps { Keeps [] self.old self.new }
    {
        let Some(entry) = self.streams.get_mut(&id) else {
            return;
        };
        if !entry.writing.is_connect() || entry.has_more() || self.unplaced.is_some() {
            return;
        }
        let _finished = entry.writing.finish();
        keep_place(&mut self.ready, id, entry);
        self.unplaced = Some(id);
    }

    // Gives a stream its place in the order of sending for which memory was refused.
    #[tactic(auto, using(crate::proofs::KeepsLemmas::keep, crate::proofs::PlaceLemmas::ordered, crate::proofs::JoinedLemmas::joined, crate::proofs::PlaceLemmas::ordered_now, crate::proofs::PlaceLemmas::ordered_gone_now, crate::proofs::PlaceLemmas::ordered_off_now))]
    pub(super) fn place_due(&mut self) -> Result<(), AllocError>
        ensures keeps { Keeps [] self.old self.new }
    {
        let Some(id) = self.unplaced else {
            return Ok(());
        };
        let Some(entry) = self.streams.get(&id) else {
            self.unplaced = None;
            return Ok(());
        };
        if !entry.may_send() {
            self.unplaced = None;
            return Ok(());
        }
        if !entry.has_more() {
            self.unplaced = None;
            return Ok(());
        }
        let _none = give_place(&mut self.ready, self.unplaced, id, entry)?;
        self.unplaced = None;
        Ok(())
    }

    // Tells the program that a stream is over, if it knows of the stream.
    #[tactic(auto, using(crate::proofs::KeepsLemmas::keeps_refl, crate::proofs::OverLemmas::keeps_over, crate::proofs::OverLemmas::keeps_closed, crate::proofs::OverLemmas::ended_unknown, crate::proofs::CutLemmas::alone_refl, crate::proofs::CutLemmas::alone_ended, crate::proofs::CutLemmas::ended_over))]
    pub(super) fn closed(&mut self, id: u64, why: Why) -> Result<(), AllocError>
        ensures keeps { Keeps [] self.old self.new }
        ensures alone { Alone id self.old self.new }
        ensures over { OnOk result (is_over_in (entry_at self.new.streams.entries id) ≡ true) }
        ensures done { OnOk result (knows_of (stream_at self.new id) ≡ false) }
        ensures outputs { self.new.outputs ≡ self.old.outputs }
        ensures closes { self.new.closes ≡ self.old.closes }
    {
        let Some(entry) = self.streams.get(&id) else {
            return Ok(());
        };
        if !entry.is_known() {
            self.end_told(id);
            return Ok(());
        }
        self.events.push_back(Event {
            stream: id,
            session: entry.session_shown(id),
            user: entry.user,
            kind: EventKind::Closed(why),
        })?;
        self.end_told(id);
        Ok(())
    }

    // The last event of a stream is told, or queued.
    #[tactic(auto, using(crate::proofs::KeepsLemmas::keep, crate::proofs::PlaceLemmas::ordered, crate::proofs::JoinedLemmas::joined, crate::proofs::SeveredLemmas::stays_over))]
    pub(super) fn end_told(&mut self, id: u64)
        ensures ends { self.new.streams.entries ≡ ended_at self.old.streams.entries id }
        ensures ids { self.new.ids ≡ self.old.ids }
        ensures events { self.new.events ≡ self.old.events }
        ensures config { self.new.config ≡ self.old.config }
        ensures ended { self.new.ended ≡ self.old.ended }
        ensures shared { self.new.shared ≡ self.old.shared }
        ensures decoder { self.new.decoder ≡ self.old.decoder }
        ensures instructions { self.new.told ≡ self.old.told }
        ensures outputs { self.new.outputs ≡ self.old.outputs }
        ensures closes { self.new.closes ≡ self.old.closes }
    {
        if let Some(entry) = self.streams.get_mut(&id) {
            entry.told = Told::Over;
        }
    }

    // QUIC took the end of the own half of a stream: what follows of a CONNECT that was refused is stopped.
    #[tactic(auto, using(crate::proofs::KeepsLemmas::but))]
    pub(super) fn after_end(&mut self, id: u64) -> Result<(), AllocError>
        ensures keeps { KeepsBut id self.old self.new }
    {
        if self.has_refused(id) {
            return self.stop_refused(id);
        }
        self.remove_if_done(id)
    }

    // Returns whether a server refused the CONNECT request on a stream, by a response that QUIC took to its end, and still
    // reads what follows.
    fn has_refused(&self, id: u64) -> bool {
        let Some(entry) = self.streams.get(&id) else {
            return false;
        };
        let known = entry.reading.known(&self.shared);
        let refuses = entry.has_tunnel || entry.is_session && matches!(known, Known::Refused);
        let is_sent = entry.writing.is_finished() && entry.writing.is_done();
        self.is_server() && refuses && is_sent && entry.peer == Peer::Reads
    }

    // Forgets a stream of which both halves are over, unless it is the own stream of a session that has streams.
    #[tactic(auto, using(crate::proofs::KeepsLemmas::keep, crate::proofs::CutLemmas::alone, crate::proofs::CutLemmas::severed_alone))]
    pub(super) fn forget_if_done(&mut self, id: u64) -> Result<(), AllocError>
        ensures keeps { Keeps [] self.old self.new }
        ensures alone { Alone id self.old self.new }
        ensures outputs { self.new.outputs ≡ self.old.outputs }
        ensures closes { self.new.closes ≡ self.old.closes }
    {
        let Some(entry) = self.streams.get(&id) else {
            return Ok(());
        };
        if !entry.is_done() {
            return Ok(());
        }
        if !self.has_no_streams(id) {
            return Ok(());
        }
        let why = if entry.is_rejected {
            Why::Unprocessed
        } else if entry.is_reset {
            Why::Reset
        } else {
            Why::Done
        };
        self.closed(id, why)?;
        self.remove(id);
        Ok(())
    }

    // Forgets a stream, which is no own stream of a session that has streams.
    #[tactic(auto, using(crate::proofs::KeepsLemmas::keep, crate::proofs::CutLemmas::alone, crate::proofs::CutLemmas::alone_removed, crate::proofs::PlaceLemmas::ordered_removed, crate::proofs::JoinedLemmas::joined_removed))]
    pub(super) fn remove(&mut self, id: u64)
        requires { AreSevered id self.old.streams.entries }
        ensures keeps { knows_of (stream_at self.old id) ≡ false → Keeps [] self.old self.new }
        ensures alone { Alone id self.old self.new }
        ensures outputs { self.new.outputs ≡ self.old.outputs }
        ensures closes { self.new.closes ≡ self.old.closes }
    {
        let Some(entry) = self.streams.remove(&id) else {
            return;
        };
        self.ready.remove(id, entry.kind());
        self.forget(id, &entry);
    }

    // Forgets what is noted of a stream that was removed.
    #[tactic(auto, using(crate::proofs::MemberLemmas::drops_refl, crate::proofs::MemberLemmas::drops_at, crate::proofs::JoinedLemmas::joined_dropped))]
    fn forget(&mut self, id: u64, entry: &Entry)
        requires { stream_at self.old id ≡ None }
        ensures streams { self.new.streams ≡ self.old.streams }
        ensures ids { DropsAt id self.old.ids self.new.ids }
        ensures events { self.new.events ≡ self.old.events }
        ensures config { self.new.config ≡ self.old.config }
        ensures ended { self.new.ended ≡ self.old.ended }
        ensures shared { self.new.shared ≡ self.old.shared }
        ensures decoder { self.new.decoder ≡ self.old.decoder }
        ensures instructions { self.new.told ≡ self.old.told }
        ensures outputs { self.new.outputs ≡ self.old.outputs }
        ensures closes { self.new.closes ≡ self.old.closes }
    {
        if entry.is_quiet {
            self.quiet = self.quiet.saturating_sub(1);
        }
        if entry.has_session {
            self.sessions = self.sessions.saturating_sub(1);
        }
        self.waiting.remove(&id);
        self.full.remove(&id);
        let Some(session) = entry.session else {
            return;
        };
        self.ids.forget(session, id);
    }
}
