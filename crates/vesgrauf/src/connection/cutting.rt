//! Sessions that end, and their streams.
ghost use Rattle.std.specs.Prelude.{◌≡◌, false, true, OnOk, []};
ghost use Rattle.vesgrauf.specs.Cuts.{Alone, AreCut, Asks, IsCut, IsOwnOver, MembersCut, is_read_out as is_read_out_in};
ghost use Rattle.vesgrauf.specs.Joined.{AreSevered, holds_in};
ghost use Rattle.vesgrauf.specs.Keeps.{Keeps};
ghost use Rattle.vesgrauf.specs.Own.{entry_at};
ghost use Rattle.vesgrauf.specs.State.{stream_at};

use crate::code::StreamCode;
use crate::connection::Connection;
use crate::entry::Peer;
use crate::event::Why;
use std::alloc::AllocError;
use wtp_core::error::Code;

#[tactic(auto, using(crate::proofs::KeepsLemmas::keep))]
impl Connection {
    // Ends the session whose own stream this is, if it is one: its streams are cut (draft-ietf-webtrans-http3-02, section
    // 5), and then it does not count any more.
    #[tactic(auto, using(crate::proofs::KeepsLemmas::keep))]
    pub(super) fn end_session(&mut self, session: u64) -> Result<(), AllocError>
        ensures keeps { Keeps [] self.old self.new }
        ensures cut { OnOk result (AreCut session self.old.streams.entries self.new.streams.entries) }
        ensures over { OnOk result (holds_in (stream_at self.new session) ≡ false) }
    {
        self.cut_all(session)?;
        self.lose_own(session)
    }

    // Forgets a stream of which both halves are over. The session ends first whose own stream it is, if there is one.
    pub(super) fn remove_if_done(&mut self, id: u64) -> Result<(), AllocError>
        ensures keeps { Keeps [] self.old self.new }
    {
        if self.is_done_session(id) {
            self.end_session(id)?;
        }
        self.forget_if_done(id)
    }

    // Returns whether both halves of a session's own stream are over.
    fn is_done_session(&self, id: u64) -> bool {
        match self.streams.get(&id) {
            Some(entry) => entry.has_session && entry.is_done(),
            None => false,
        }
    }

    // Returns whether this is no own stream of a session that counts, or no stream is noted as one of that.
    #[tactic(auto, using(crate::proofs::JoinedLemmas::joined_severed, crate::proofs::JoinedLemmas::unnoted_severed))]
    pub(super) fn has_no_streams(&self, id: u64) -> bool
        ensures { result ≡ true → AreSevered id self.now.streams.entries }
    {
        if !self.has_session(id) {
            return true;
        }
        self.ids.first_member(id).is_none()
    }

    // If this is the own stream of a session, whose streams were cut, there is none any more: its datagrams are dropped.
    #[tactic(auto, using(crate::proofs::KeepsLemmas::keep, crate::proofs::CutLemmas::alone, crate::proofs::JoinedLemmas::holds_none, crate::proofs::JoinedLemmas::holds_not))]
    fn lose_own(&mut self, session: u64) -> Result<(), AllocError>
        requires { AreSevered session self.old.streams.entries }
        ensures keeps { Keeps [] self.old self.new }
        ensures alone { Alone session self.old self.new }
        ensures over { OnOk result (holds_in (stream_at self.new session) ≡ false) }
    {
        let Some(entry) = self.streams.get(&session) else {
            return Ok(());
        };
        if !entry.has_session {
            return Ok(());
        }
        self.note_over(session);
        self.sessions = self.sessions.saturating_sub(1);
        self.datagrams.opened.push_back(session)?;
        self.drop_datagrams(session)
    }

    // This stream has no session any more, whose streams were cut.
    #[tactic(auto, using(crate::proofs::KeepsLemmas::keep, crate::proofs::CutLemmas::alone_refl, crate::proofs::CutLemmas::alone_lost, crate::proofs::PlaceLemmas::ordered, crate::proofs::JoinedLemmas::joined_over, crate::proofs::JoinedLemmas::holds_none, crate::proofs::JoinedLemmas::holds_set))]
    fn note_over(&mut self, session: u64)
        requires { AreSevered session self.old.streams.entries }
        ensures keeps { Keeps [] self.old self.new }
        ensures alone { Alone session self.old self.new }
        ensures over { holds_in (stream_at self.new session) ≡ false }
    {
        if let Some(entry) = self.streams.get_mut(&session) {
            entry.has_session = false;
        }
    }

    // Cuts the streams of a session that ends. Without memory for one, all are when it is ended again.
    #[tactic(auto, using(crate::proofs::KeepsLemmas::keep, crate::proofs::CutLemmas::cutting_first, crate::proofs::CutLemmas::cutting_next, crate::proofs::CutLemmas::cutting_last, crate::proofs::CutLemmas::cutting_severed, crate::proofs::CutLemmas::cut_joined))]
    fn cut_all(&mut self, session: u64) -> Result<(), AllocError>
        ensures keeps { Keeps [] self.old self.new }
        ensures cut { OnOk result (MembersCut session self.old.ids self.new.streams.entries) }
        ensures joined { OnOk result (AreCut session self.old.streams.entries self.new.streams.entries) }
        ensures severed { OnOk result (AreSevered session self.new.streams.entries) }
    {
        let mut next = self.ids.first_member(session);
        'members: while let Some(id) = next {
            self.cut(id)?;
            next = self.ids.member_after(session, id);
        }
        self.wake();
        Ok(())
    }

    // Closes a stream whose session is over. One whose end came is read to its end; the program is told that the own half is
    // reset.
    #[tactic(auto, using(crate::proofs::KeepsLemmas::keep, crate::proofs::KeepsLemmas::keeps_gone, crate::proofs::CutLemmas::alone, crate::proofs::CutLemmas::stays, crate::proofs::CutLemmas::asks, crate::proofs::CutLemmas::cut_shut, crate::proofs::CutLemmas::cut_read))]
    fn cut(&mut self, id: u64) -> Result<(), AllocError>
        ensures keeps { Keeps [] self.old self.new }
        ensures alone { Alone id self.old self.new }
        ensures cut { OnOk result (IsCut (entry_at self.new.streams.entries id)) }
        ensures asks { Asks id 0x170d7b68 self.old.outputs.items self.new.outputs.items }
    {
        let gone = Code::WEBTRANSPORT_SESSION_GONE;
        if self.is_read_out(id) {
            return self.cut_own(id, gone);
        }
        self.closed(id, Why::SessionGone)?;
        self.end_left(id, gone.number().into_inner())?;
        self.forget_if_done(id)
    }

    // Resets the own half of a stream whose session is over, if it is still to be sent, or its end to be taken.
    #[tactic(auto, using(crate::proofs::KeepsLemmas::keep, crate::proofs::CutLemmas::alone, crate::proofs::CutLemmas::stays, crate::proofs::CutLemmas::asks, crate::proofs::CutLemmas::own_reset))]
    fn cut_own(&mut self, id: u64, gone: Code) -> Result<(), AllocError>
        ensures keeps { Keeps [] self.old self.new }
        ensures alone { Alone id self.old self.new }
        ensures own { OnOk result (IsOwnOver (entry_at self.new.streams.entries id)) }
        ensures read { is_read_out_in (stream_at self.new id) ≡ is_read_out_in (stream_at self.old id) }
        ensures asks { Asks id gone self.old.outputs.items self.new.outputs.items }
    {
        if !self.is_to_reset(id) {
            return Ok(());
        }
        self.stop_own(id, gone.number().into_inner(), StreamCode::Http(gone))
    }

    // Returns whether the own half of a stream is still to be sent, or its end to be taken.
    #[tactic(auto, using(crate::proofs::CutLemmas::own_sent, crate::proofs::CutLemmas::own_was_reset))]
    fn is_to_reset(&self, id: u64) -> bool
        ensures { result ≡ false → IsOwnOver (stream_at self.now id) }
    {
        match self.streams.get(&id) {
            Some(entry) => {
                let was_reset = entry.writing.is_ended() && !entry.writing.is_finished();
                !was_reset && !entry.writing.is_done()
            }
            None => false,
        }
    }

    // Returns whether the end of a stream came that is still read.
    fn is_read_out(&self, id: u64) -> bool
        ensures { result ≡ is_read_out_in (stream_at self.now id) }
    {
        match self.streams.get(&id) {
            Some(entry) => entry.peer == Peer::Reads && entry.is_ended,
            None => false,
        }
    }
}
