//! Streams that the peer resets, or asks to stop.
ghost use Rattle.std.specs.Prelude.{◌≡◌, true, false, IfOk, [], None, OnOk};
ghost use Rattle.wtp_connection.specs.Budget.{code_after};
ghost use Rattle.vesgrauf.specs.Keeps.{Keeps};
ghost use Rattle.vesgrauf.specs.State.{head, is_over};
ghost use Rattle.vesgrauf.specs.Theirs.{Gone, IsSilent, theirs_at};
ghost use Rattle.vesgrauf.specs.Told.{ends, word_of, said_by};

use crate::code::StreamCode;
use crate::connection::failing::EXCESSIVE_LOAD;
use crate::connection::peers::dropped;
use crate::connection::{Connection, Step, Stop, internal};
use crate::entry::{Entry, Peer};
use crate::event::{Event, EventKind, Why};
use crate::output::Output;
use std::alloc::AllocError;
use wtp_connection::stream::Purpose;
use wtp_core::error::Code;
use wtp_core::varint::VarInt;
use wtp_webtransport::event::Event as Said;
use wtp_webtransport::fault::Fault;

#[tactic(auto, using(crate::proofs::KeepsLemmas::keep))]
impl Connection {
    // The peer reset a stream.
    pub(super) fn reset_came(&mut self, id: u64, code: u64) -> Result<(), Stop>
        ensures keeps { Keeps [] self.old self.new }
    {
        match self.peer_of(id) {
            Peer::Over => return Ok(self.forget_stop(id)),
            Peer::Drops => return Ok(self.peer_is_over(id)?),
            Peer::Reads => {}
        }
        self.give_up(id)?;
        let shown = self.shown_code(id, code)?;
        let is_rejected = !self.is_server() && shown == StreamCode::Http(Code::H3_REQUEST_REJECTED);
        let Some(event) = self.note_reset(id, is_rejected) else {
            return Ok(());
        };
        if let Said::ConnectionError(fault) = event {
            return Err(Stop::from(fault));
        }
        self.half_reset(id, shown, event)
    }

    // The peer's half is reset. Returns what the stream says, or `None` if there is none.
    #[tactic(auto, using(crate::proofs::KeepsLemmas::keep, crate::proofs::KeepsLemmas::keeps_turned, crate::proofs::PlaceLemmas::ordered, crate::proofs::JoinedLemmas::joined, crate::proofs::SeveredLemmas::stays_ended))]
    fn note_reset(&mut self, id: u64, is_rejected: bool) -> Option<Said<'static>>
        ensures keeps { Keeps [] self.old self.new }
    {
        let Some(entry) = self.streams.get_mut(&id) else {
            return None;
        };
        entry.is_ended = true;
        entry.is_rejected = is_rejected;
        Some(entry.reading.reset(&mut self.shared))
    }

    // Handles what the reset of the peer's half says of the stream.
    #[tactic(auto, using(crate::proofs::KeepsLemmas::keep, crate::proofs::KeepsLemmas::keeps_gone))]
    fn half_reset(&mut self, id: u64, shown: StreamCode, event: Said<'static>) -> Result<(), Stop>
        ensures keeps { Keeps [] self.old self.new }
    {
        self.tell_reset(id, shown)?;
        self.half_ended(id, event)?;
        Ok(self.after_reset(id)?)
    }

    // The peer's half of a stream is read no further, since the peer reset it. The program is told so, if it knows of the
    // stream.
    #[tactic(auto, using(crate::proofs::KeepsLemmas::keep, crate::proofs::KeepsLemmas::keeps_reset, crate::proofs::TellsLemmas::gone_set, crate::proofs::PlaceLemmas::ordered, crate::proofs::JoinedLemmas::joined, crate::proofs::SeveredLemmas::stays_gone))]
    fn tell_reset(&mut self, id: u64, shown: StreamCode) -> Result<(), AllocError>
        ensures keeps { Keeps [] self.old self.new }
        ensures gone { OnOk result (theirs_at self.new.streams.entries id ≡ Gone) }
    {
        let Some(entry) = self.streams.get_mut(&id) else {
            return Ok(());
        };
        if entry.is_known() {
            self.events.push_back(Event {
                stream: id,
                session: entry.session_shown(id),
                user: entry.user,
                kind: EventKind::Reset(shown),
            })?;
        }
        entry.peer = dropped(entry.peer);
        Ok(())
    }

    // Leaves what the peer's half of a stream was for, which was reset.
    #[tactic(auto, using(crate::proofs::KeepsLemmas::keep, crate::proofs::KeepsLemmas::keeps_gone))]
    fn after_reset(&mut self, id: u64) -> Result<(), AllocError>
        ensures keeps { theirs_at self.old.streams.entries id ≡ Gone → Keeps [] self.old self.new }
    {
        self.leave_lost(id)?;
        self.peer_is_over(id)
    }

    // Leaves the session and the own half of a stream whose other half the peer reset.
    fn leave_lost(&mut self, id: u64) -> Result<(), AllocError>
        ensures keeps { Keeps [] self.old self.new }
    {
        self.lose_session(id)?;
        self.leave_untold(id)?;
        self.cancel_left(id);
        Ok(())
    }

    // The peer reset the own stream of a session that is still to come, or one side stopped it: it does not come.
    pub(super) fn lose_session(&mut self, id: u64) -> Result<(), AllocError>
        ensures keeps { Keeps [] self.old self.new }
    {
        let Some(entry) = self.streams.get(&id) else {
            return Ok(());
        };
        if !entry.has_session {
            return Ok(());
        }
        let why = why_lost(entry.is_rejected);
        self.shut(id, Code::H3_REQUEST_CANCELLED, why)
    }

    // Returns whether the server rejected the request on a stream.
    fn is_rejected(&self, id: u64) -> bool {
        match self.streams.get(&id) {
            Some(entry) => entry.is_rejected,
            None => false,
        }
    }

    // Resets the own half of a stream that the peer reset before the program was told of it: nothing will be sent on it.
    #[tactic(auto, using(crate::proofs::KeepsLemmas::keep, crate::proofs::KeepsLemmas::keeps_unknown))]
    fn leave_untold(&mut self, id: u64) -> Result<(), AllocError>
        ensures keeps { Keeps [] self.old self.new }
    {
        let Some(entry) = self.streams.get(&id) else {
            return Ok(());
        };
        if entry.is_known() || entry.writing.is_ended() {
            return Ok(());
        }
        let code = Code::H3_REQUEST_INCOMPLETE.number().into_inner();
        self.reset_own(id, code)
    }

    // The peer asked to stop an own stream that has this purpose. Returns the fault, if that is one.
    #[tactic(auto, using(crate::proofs::KeepsLemmas::keep, crate::proofs::TableSteps::keeps_own_stopped))]
    fn critical_stopped(&mut self, own: Purpose) -> Option<Fault>
        ensures keeps { Keeps [] self.old self.new }
    {
        self.shared.stopped(own)
    }

    // The peer asked to stop the own half of a stream.
    pub(super) fn stop_came(&mut self, id: u64, code: u64) -> Result<(), Stop>
        ensures keeps { Keeps [] self.old self.new }
    {
        if let Some(own) = self.own_purpose(id) {
            return match self.critical_stopped(own) {
                Some(fault) => Err(Stop::from(fault)),
                None => Ok(()),
            };
        }
        let shown = self.shown_code(id, code)?;
        let is_over = match self.streams.get(&id) {
            Some(entry) => is_sent(entry),
            None => return Ok(()),
        };
        if is_over {
            return Ok(self.stop_ended(id, code, shown)?);
        }
        self.give_up(id)?;
        self.stop_own(id, code, shown)?;
        self.half_stopped(id, code)
    }

    // The peer asked to stop an own half of which nothing is left to send.
    fn stop_ended(&mut self, id: u64, code: u64, shown: StreamCode) -> Result<(), AllocError>
        ensures keeps { Keeps [] self.old self.new }
    {
        if !self.may_reset_ended(id) {
            return Ok(());
        }
        self.tell_stopped(id, code, shown)
    }

    // The own half of a stream is stopped. Returns what the stream says, or `None` if there is none.
    #[tactic(auto, using(crate::proofs::KeepsLemmas::keep, crate::proofs::KeepsLemmas::keeps_turned, crate::proofs::PlaceLemmas::ordered, crate::proofs::JoinedLemmas::joined))]
    fn note_stop(&mut self, id: u64, code: u64) -> Option<Said<'static>>
        ensures keeps { Keeps [] self.old self.new }
    {
        let Some(entry) = self.streams.get_mut(&id) else {
            return None;
        };
        entry.stopped = if entry.is_known() {
            entry.stopped
        } else {
            Some(code)
        };
        Some(entry.reading.stop(&mut self.shared))
    }

    // Handles what the stop of the own half says of the stream.
    fn half_stopped(&mut self, id: u64, code: u64) -> Result<(), Stop>
        ensures keeps { Keeps [] self.old self.new }
    {
        let Some(event) = self.note_stop(id, code) else {
            return Ok(());
        };
        self.half_ended(id, event)?;
        Ok(self.after_stop(id)?)
    }

    // Leaves what the own half of a stream was for, which was stopped.
    fn after_stop(&mut self, id: u64) -> Result<(), AllocError>
        ensures keeps { Keeps [] self.old self.new }
    {
        if !self.is_server() {
            return self.remove_if_done(id);
        }
        self.lose_session(id)?;
        self.remove_if_done(id)
    }

    // Tells the program of a stop that came before it knew of the stream. A session that was stopped does not come to be.
    pub(super) fn tell_stop(&mut self, id: u64) -> Result<(), Stop>
        ensures keeps { Keeps [] self.old self.new }
    {
        let Some(code) = self.take_stop(id) else {
            return Ok(());
        };
        let shown = self.shown_code(id, code)?;
        self.queue_event(id, EventKind::Stopped(shown))?;
        self.read_unanswered(id);
        Ok(self.lose_session(id)?)
    }

    // Takes the code of a stop that is still to be told.
    #[tactic(auto, using(crate::proofs::KeepsLemmas::keep, crate::proofs::PlaceLemmas::ordered, crate::proofs::JoinedLemmas::joined))]
    fn take_stop(&mut self, id: u64) -> Option<u64>
        ensures keeps { Keeps [] self.old self.new }
    {
        let entry = self.streams.get_mut(&id)?;
        entry.stopped.take()
    }

    // Handles what the end of one half says of the stream.
    fn half_ended(&mut self, id: u64, event: Said<'static>) -> Result<(), Stop>
        ensures keeps { Keeps [] self.old self.new }
    {
        match event {
            Said::Reset(Some(fault)) | Said::StreamError(fault) => {
                Ok(self.shut(id, fault.code(), Why::Fault(fault))?)
            }
            Said::SessionLost => {
                let why = why_lost(self.is_rejected(id));
                Ok(self.shut(id, Code::H3_REQUEST_CANCELLED, why)?)
            }
            Said::ConnectionError(fault) => Err(Stop::from(fault)),
            _ => Ok(()),
        }
    }

    // Counts a request that its client gives up before its answer (RFC 9114, section 10.5).
    #[tactic(auto, using(crate::proofs::KeepsLemmas::keep, crate::proofs::PlaceLemmas::ordered, crate::proofs::JoinedLemmas::joined))]
    fn give_up(&mut self, id: u64) -> Result<(), Stop>
        ensures keeps { Keeps [] self.old self.new }
        ensures budget { code_after self.old.budget ≡ None → OnOk result (code_after self.new.budget ≡ None) }
    {
        let Some(entry) = self.streams.get_mut(&id) else {
            return Ok(());
        };
        let is_head = entry.peer == Peer::Reads && entry.reading.is_request_head();
        let waits = is_head && self.waiting.contains(&id);
        // (of a request whose own half ended here there is no answer to wait for)
        let is_given_up = (entry.is_awaited || waits) && !entry.writing.is_ended();
        if !is_given_up {
            return Ok(());
        }
        entry.is_awaited = false;
        match self.budget.reset_unanswered() {
            Some(_code) => Err(Stop::from(EXCESSIVE_LOAD)),
            None => Ok(()),
        }
    }

    // Queues an event of a stream, if the program knows of the stream.
    #[tactic(auto, using(crate::proofs::KeepsLemmas::keep, crate::proofs::GoesLemmas::goes_said))]
    pub(super) fn queue_event(
        &mut self,
        id: u64,
        kind: EventKind<'static>,
    ) -> Result<(), AllocError>
        ensures keeps { ends (word_of kind.entry) ≡ false → Keeps [] self.old self.new }
    {
        if let Step::Told(event) = self.tell(id, kind) {
            self.events.push_back(event)?;
        }
        Ok(())
    }

    // Returns the code as the program sees it: the application's, on a stream of a session. One that cannot be is an error
    // of QUIC.
    fn shown_code(&self, id: u64, code: u64) -> Result<StreamCode, Stop> {
        if let Some(entry) = self.streams.get(&id) {
            if let Some(shown) = entry.reading.application_code(code) {
                return Ok(StreamCode::from(shown));
            }
        }
        match VarInt::try_from_u64(code) {
            Ok(number) => Ok(StreamCode::Http(Code::new(number))),
            Err(_) => Err(internal()),
        }
    }

    // Returns what an own critical stream is for.
    fn own_purpose(&self, id: u64) -> Option<Purpose> {
        if self.control.is(id) {
            return Some(Purpose::Control);
        }
        if self.decoder.is(id) {
            return Some(Purpose::Decoder);
        }
        if self.encoder.is(id) {
            return Some(Purpose::Encoder);
        }
        None
    }

    // QUIC has closed a stream. An own half that is lost by that is as one that the peer asked to stop. What the peer sent is
    // still read.
    pub(super) fn stream_closed(&mut self, id: u64) -> Result<(), Stop>
        ensures keeps { Keeps [] self.old self.new }
    {
        if self.lose_half(id)? {
            self.read_unanswered(id);
            return self.half_stopped(id, Code::H3_REQUEST_CANCELLED.number().into_inner());
        }
        Ok(self.remove_if_done(id)?)
    }

    // No answer can be sent on a stream: what follows its request is read on.
    fn read_unanswered(&mut self, id: u64)
        ensures keeps { Keeps [] self.old self.new }
    {
        self.leave_order(id);
        self.wake();
    }

    // Leaves a request that the server does not process.
    pub(super) fn leave_unprocessed<'a>(&mut self, first: u64) -> Result<Step<'a>, Stop>
        ensures keeps { Keeps (said_by result) self.old self.new }
        ensures silent { IfOk result IsSilent }
    {
        let Some(id) = self.first_request(first) else {
            self.pending.unprocessed = None;
            return Ok(Step::More);
        };
        self.shut(id, Code::H3_REQUEST_CANCELLED, Why::Unprocessed)?;
        self.pending.unprocessed = Some(id.saturating_add(4));
        Ok(Step::More)
    }

    // Returns the first stream of an own request from this ID on.
    fn first_request(&self, first: u64) -> Option<u64> {
        let mut from = first;
        for _stream in 0..self.streams.len() {
            let (id, entry) = self.streams.next_from(from)?;
            if id % 4 == 0 && entry.session.is_none() {
                return Some(id);
            }
            from = id.saturating_add(1);
        }
        None
    }

    // Returns the first output that is queued.
    pub(super) fn first_output(&self) -> Option<Output>
        ensures { result ≡ head self.now.outputs.items }
    {
        self.outputs.front().copied()
    }
}

// Returns why a session is over whose own stream was lost: its request may have been rejected (RFC 9114, section 4.1.1).
fn why_lost(is_rejected: bool) -> Why {
    if is_rejected {
        Why::Unprocessed
    } else {
        Why::SessionGone
    }
}

// Returns whether nothing is left to be sent on the own half of a stream.
fn is_sent(entry: &Entry) -> bool {
    let is_reset = entry.writing.is_ended() && !entry.writing.is_finished();
    is_reset || entry.writing.is_done()
}
