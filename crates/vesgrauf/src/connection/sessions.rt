//! Sessions.
ghost use Rattle.std.specs.Prelude.{◌≡◌, ◌⊎◌, ◌==◌, ◌&&◌, length, ◌+◌, ◌-◌, ◌^◌, min, is_some, true, false, List, Ok, Err, OnOk, OnErr, IfErr, IfOk, [], ◌∷◌};
ghost use Rattle.vesgrauf.specs.Joined.{holds_in};
ghost use Rattle.vesgrauf.specs.Order.{LooksAtAll};
ghost use Rattle.vesgrauf.specs.Messages.{ClosesSession, ChangesThen};
ghost use Rattle.vesgrauf_stream.specs.Writing.{Drains, Ends as EndsHalf, Closes as ClosesHalf};
ghost use Rattle.vesgrauf.specs.Halves.{LastsBut, LastsOn};
ghost use Rattle.vesgrauf.specs.Keeps.{Keeps, KeepsBut};
ghost use Rattle.vesgrauf.specs.State.{stream_at, IsStill, IsRefused, Changes, IsWhy, RefusesDrain, head, is_over, known_in, open_session};
ghost use Rattle.vesgrauf.specs.Own.{UntouchedBut, entry_at};
ghost use Rattle.vesgrauf.specs.Items.{Item, Section, Asks};
ghost use Rattle.wtp_webtransport.specs.declared.event.HeadersKind.TheVariants as headers;
ghost use Rattle.vesgrauf.specs.Theirs.{Left, Gone, Hands, IsSilent, theirs_at, told_in};
ghost use Rattle.vesgrauf.specs.Told.{GoesOn, said_by, said_in};
ghost use Rattle.vesgrauf.specs.Cuts.{AreCut};
ghost use Rattle.wtp_connection.specs.declared.connection.Known.TheVariants as known;
ghost use Rattle.vesgrauf.specs.Works.{WorksOn};

use crate::connection::placing::{keep_place, take_place};
use crate::connection::{Connection, Step, Stop};
use crate::event::{EventKind, Tunnel, Why};
use crate::refused::Refused;
use std::alloc::AllocError;
use wtp_connection::connection::Known;
use wtp_core::error::Code;
use wtp_fields::fields::FieldList;
use wtp_messages::response::Asked;

#[tactic(auto, using(crate::proofs::KeepsLemmas::keep))]
impl Connection {
    // A request for a session came. One above the limit is rejected.
    #[tactic(auto, using(crate::proofs::KeepsLemmas::keep, crate::proofs::KeepsLemmas::keeps_left, crate::proofs::TellsLemmas::hands_left))]
    pub(super) fn session_came(&mut self, id: u64, list: FieldList) -> Result<Step<'static>, Stop>
        ensures keeps { Keeps (said_by result) self.old self.new }
        ensures hands { IfOk result (λ s. Hands id (Asks list ∷ []) (told_in s)
            self.old.streams.entries self.new.streams.entries) }
    {
        if self.has_all_sessions() {
            return self.turn_away(id);
        }
        let step = self.tell_session(id, list)?;
        self.tell_stop(id)?;
        Ok(step)
    }

    // Rejects a request for a session: there are too many.
    #[tactic(auto, using(crate::proofs::KeepsLemmas::keep, crate::proofs::KeepsLemmas::keeps_left, crate::proofs::TellsLemmas::gone_hands))]
    fn turn_away(&mut self, id: u64) -> Result<Step<'static>, Stop>
        ensures keeps { Keeps (said_by result) self.old self.new }
        ensures hands { (items : List Item) → IfOk result (λ s. Hands id items (told_in s)
            self.old.streams.entries self.new.streams.entries) }
    {
        self.reject_fully(id)?;
        Ok(Step::More)
    }

    // Rejects the request on a stream, of which nothing more is read.
    fn reject_fully(&mut self, id: u64) -> Result<(), Stop>
        ensures keeps { Keeps [] self.old self.new }
        ensures gone { OnOk result (theirs_at self.new.streams.entries id ≡ Gone) }
    {
        self.reject(id, Some(id))?;
        self.drop_untold(id)
    }

    // Tells of a request for a session.
    #[tactic(auto, using(crate::proofs::KeepsLemmas::keep, crate::proofs::KeepsLemmas::keeps_left, crate::proofs::TellsLemmas::left_then_hands))]
    fn tell_session(&mut self, id: u64, list: FieldList) -> Result<Step<'static>, Stop>
        ensures keeps { Keeps (said_by result) self.old self.new }
        ensures quiet { Keeps [] self.old self.new }
        ensures hands { IfOk result (λ s. Hands id (Asks list ∷ []) (told_in s)
            self.old.streams.entries self.new.streams.entries) }
    {
        self.begin_session(id);
        self.tell_read(id, EventKind::Connect(Tunnel::Session, list))
    }

    // The request on a stream asks for a session.
    fn begin_session(&mut self, id: u64)
        ensures keeps { Keeps [] self.old self.new }
    {
        self.note_request(id, Asked::Session);
        self.count_session();
        self.note_session(id);
        self.share(id);
    }

    // This is the own stream of a session, which counts.
    #[tactic(auto, using(crate::proofs::KeepsLemmas::keep, crate::proofs::PlaceLemmas::ordered, crate::proofs::JoinedLemmas::joined_holds))]
    fn note_session(&mut self, id: u64)
        ensures keeps { Keeps [] self.old self.new }
    {
        if let Some(entry) = self.streams.get_mut(&id) {
            entry.is_session = true;
            entry.has_session = true;
        }
    }

    // The server accepted a session. It is lost if the server stopped the own half before.
    pub(super) fn session_ready(
        &mut self,
        id: u64,
        status: u32,
        list: FieldList,
    ) -> Result<Step<'static>, Stop>
        ensures keeps { Keeps (said_by result) self.old self.new }
        ensures hands { IfOk result (λ s. Hands id (Section (headers.Response status) list ∷ []) (told_in s)
            self.old.streams.entries self.new.streams.entries) }
    {
        if self.is_own_ended(id) {
            return self.session_stopped(id, status, list);
        }
        self.session_opens(id, status, list)
    }

    // Returns whether the own half of a stream was finished or reset.
    fn is_own_ended(&self, id: u64) -> bool {
        match self.streams.get(&id) {
            Some(entry) => entry.writing.is_ended(),
            None => false,
        }
    }

    // The server accepted a session whose own half it had stopped.
    #[tactic(auto, using(crate::proofs::KeepsLemmas::keep, crate::proofs::KeepsLemmas::keeps_left, crate::proofs::TellsLemmas::hands_left))]
    fn session_stopped(
        &mut self,
        id: u64,
        status: u32,
        list: FieldList,
    ) -> Result<Step<'static>, Stop>
        ensures keeps { Keeps (said_by result) self.old self.new }
        ensures hands { IfOk result (λ s. Hands id (Section (headers.Response status) list ∷ []) (told_in s)
            self.old.streams.entries self.new.streams.entries) }
    {
        let step = self.tell_read(id, EventKind::Response(status, list))?;
        self.shut(id, Code::H3_REQUEST_CANCELLED, Why::SessionGone)?;
        Ok(step)
    }

    // The server accepted a session, which is open.
    #[tactic(auto, using(crate::proofs::KeepsLemmas::keep, crate::proofs::KeepsLemmas::keeps_left, crate::proofs::TellsLemmas::left_then_hands))]
    fn session_opens(
        &mut self,
        id: u64,
        status: u32,
        list: FieldList,
    ) -> Result<Step<'static>, Stop>
        ensures keeps { Keeps (said_by result) self.old self.new }
        ensures hands { IfOk result (λ s. Hands id (Section (headers.Response status) list ∷ []) (told_in s)
            self.old.streams.entries self.new.streams.entries) }
    {
        self.note_open(id)?;
        self.tell_read(id, EventKind::Response(status, list))
    }

    // The session is open: what came before it is to be told.
    fn note_open(&mut self, id: u64) -> Result<(), AllocError>
        ensures keeps { Keeps [] self.old self.new }
    {
        self.connect(id);
        self.datagrams.opened.push_back(id)?;
        self.wake();
        Ok(())
    }

    // The server refused a session: the own half ends, and the response goes on.
    #[tactic(auto, using(crate::proofs::KeepsLemmas::keep, crate::proofs::KeepsLemmas::keeps_left, crate::proofs::TellsLemmas::left_then_hands))]
    pub(super) fn session_rejected(
        &mut self,
        id: u64,
        status: u32,
        list: FieldList,
    ) -> Result<Step<'static>, Stop>
        ensures keeps { Keeps (said_by result) self.old self.new }
        ensures hands { IfOk result (λ s. Hands id (Section (headers.Response status) list ∷ []) (told_in s)
            self.old.streams.entries self.new.streams.entries) }
    {
        self.note_refused(id)?;
        self.tell_read(id, EventKind::Response(status, list))
    }

    // The session was refused: nothing more is sent on its own stream.
    fn note_refused(&mut self, id: u64) -> Result<(), AllocError>
        ensures keeps { Keeps [] self.old self.new }
    {
        self.end_own(id);
        self.end_session(id)
    }

    // Returns what is known of the session that a stream names: it is refused if the stream has waited for too long.
    pub(super) fn known_to(&self, id: u64, session: u64) -> Known
        ensures { known_in self.now session ≡ known.Open → result ≡ known.Open }
    {
        match self.known(session) {
            Known::Coming if self.is_late(id, session) => Known::Refused,
            known => known,
        }
    }

    // Returns whether a stream has waited since before the last tick but one for a session that no request asks for.
    fn is_late(&self, id: u64, session: u64) -> bool {
        let is_asked = match self.streams.get(&session) {
            Some(entry) => entry.is_known(),
            None => false,
        };
        match self.streams.get(&id) {
            Some(entry) => !is_asked && self.ticks.saturating_sub(entry.since) > 1,
            None => false,
        }
    }

    // Returns a session that opened, if what came before it is to be told now: no stream of a session is being read. The
    // sessions' own streams wait until then, since they may say that a session is over.
    pub(super) fn session_opened(&mut self) -> Option<u64>
        ensures keeps { Keeps [] self.old self.new }
    {
        let session = self.datagrams.opened.front().copied()?;
        if let Some(id) = self.pending.resumed {
            if !self.is_session(id) {
                return None;
            }
            self.pending.resumed = None;
        }
        Some(session)
    }

    // Returns whether there is a stream with this ID.
    pub(super) fn has_stream(&self, id: u64) -> bool
        ensures { result ≡ is_some (stream_at self.now id) }
    {
        match self.streams.get(&id) {
            Some(_) => true,
            None => false,
        }
    }

    // Returns whether a session counts whose own stream this is: it is to come, or open.
    pub(super) fn has_session(&self, id: u64) -> bool
        ensures { result ≡ holds_in (stream_at self.now id) }
    {
        match self.streams.get(&id) {
            Some(entry) => entry.has_session,
            None => false,
        }
    }

    // Returns whether this is the own stream of a session.
    pub(super) fn is_session(&self, id: u64) -> bool {
        match self.streams.get(&id) {
            Some(entry) => entry.is_session,
            None => false,
        }
    }

    /// Says that time has passed: about a round trip, or a second. A connection has no clock. A stream that came before the
    /// last call of this, of a session that no request asks for yet, is rejected with
    /// WEBTRANSPORT_BUFFERED_STREAM_REJECTED by the next [`next_event`](Self::next_event). A datagram that came before the
    /// last call of this, and whose session is not open, is dropped (draft-ietf-webtrans-http3-02, section 4.5; RFC 9297,
    /// section 2.1). So what comes too early waits for one to two of these times, and does not keep the place of another
    /// for ever. After the end of the connection nothing changes.
    #[tactic(auto, using(crate::proofs::ActLemmas::act, crate::proofs::ActLemmas::act_still, crate::proofs::ActLemmas::act_kept, crate::proofs::KeepsLemmas::kept, crate::proofs::LastsLemmas::lasts_refl))]
    pub fn tick(&mut self)
        ensures over { is_over self.old ≡ true → self.new ≡ self.old }
        ensures still { IsStill self.old self.new }
        ensures goes { GoesOn [] self.old self.new }
        ensures counts { is_over self.old ≡ false → self.new.ticks ≡ min (self.old.ticks + 1) (2 ^ 64 - 1) }
        ensures wakes { is_over self.old ≡ false → LooksAtAll self.new }
        ensures ages { is_over self.old ≡ false → self.old.datagrams.opened.items ≡ []
            → (self.new.datagrams.aged ≡ self.old.datagrams.early) × (self.new.datagrams.early ≡ []) }
        ensures gives { is_some (head self.old.datagrams.opened.items) ≡ true → self.new.datagrams ≡ self.old.datagrams }
        ensures others { is_over self.old ≡ false → self.new ≡ record self.old {
          ticks = self.new.ticks;
          datagrams = record self.old.datagrams { early = self.new.datagrams.early; aged = self.new.datagrams.aged };
          pending = record self.old.pending { is_woken = true; cursor = 0 };
        } }
        ensures lasts { LastsOn [] self.old self.new }
        ensures works { WorksOn self.old self.new }
    {
        if self.ended.is_some() {
            return;
        }
        self.ticks = self.ticks.saturating_add(1);
        self.datagrams.age(self.alloc);
        self.wake();
    }

    // Tells what came before a session was open.
    pub(super) fn step_opened<'a>(&mut self, session: u64) -> Step<'a>
        ensures keeps { Keeps (said_in result) self.old self.new }
        ensures silent { IsSilent result }
    {
        if let Some(step) = self.early_of(session) {
            return step;
        }
        let Some(id) = self.next_waiting() else {
            self.datagrams.opened.pop_front();
            self.pending.cursor = 0;
            return Step::More;
        };
        self.pending.cursor = id.saturating_add(1);
        if self.session_awaited(id) == Some(session) {
            self.pending.resumed = Some(id);
        }
        Step::More
    }

    /// Asks the peer to end a session soon (draft-ietf-webtrans-http3-07, section 4.6).
    ///
    /// # Errors
    ///
    /// Nothing changes. `Closed`; `SessionGone`; `NotOpen`; and `Memory`.
    #[tactic(auto, using(crate::proofs::ActLemmas::act, crate::proofs::ActLemmas::act_still, crate::proofs::ActLemmas::act_kept, crate::proofs::KeepsLemmas::kept, crate::proofs::TheirsLemmas::left_set, std::proofs::lemmas::Map::Steps::set_value_same, crate::proofs::GoesLemmas::goes_set, crate::proofs::PlaceLemmas::ordered, crate::proofs::JoinedLemmas::joined, crate::proofs::PlaceLemmas::ordered_sent, crate::proofs::SendsLemmas::lasts_same))]
    pub fn drain_session(&mut self, session: u64) -> Result<(), Refused>
        ensures open { OnOk result (open_session self.old session ≡ Ok tt) }
        ensures ok { OnOk result (Changes session Drains self.old self.new) }
        ensures why { IfErr result (λ e. (open_session self.old session ≡ Err e)
            ⊎ IsWhy RefusesDrain self.old session e) }
        ensures kept { OnErr result (IsStill self.old self.new) }
        ensures left { Left self.old.streams.entries self.new.streams.entries }
        ensures config { self.new.config ≡ self.old.config }
        ensures goes { GoesOn [] self.old self.new }
        ensures lasts { LastsOn [] self.old self.new }
        ensures works { WorksOn self.old self.new }
    {
        self.check_session(session)?;
        self.begin_send(session)?;
        let Some(entry) = self.streams.get_mut(&session) else {
            return Err(Refused::NoStream);
        };
        self.unplaced = take_place(&mut self.ready, self.unplaced, session, entry)?;
        let result = entry.writing.drain(&mut self.tools.spares);
        keep_place(&mut self.ready, session, entry);
        Ok(result?)
    }

    /// Closes a session, with a code and a reason of the application. Its streams are reset and stopped
    /// (draft-ietf-webtrans-http3-02, section 5), and its datagrams that wait are dropped (RFC 9297, section 2.1). The code
    /// and the reason are sent on the session's own stream, so they need the peer's windows: [`abort`](Self::abort) of that
    /// stream ends the session without them.
    ///
    /// # Errors
    ///
    /// Nothing changes. `Closed`; `SessionGone`; `NotOpen`; `Send` if the reason has more than 1,024 bytes; and `Memory`.
    #[tactic(auto, using(crate::proofs::ActLemmas::act, crate::proofs::ActLemmas::act_still, crate::proofs::ActLemmas::act_kept, crate::proofs::KeepsLemmas::kept, crate::proofs::OwnLemmas::but_then, crate::proofs::StepLemmas::left_trans, crate::proofs::LastsLemmas::lasts_refl))]
    pub fn close_session(&mut self, session: u64, code: u32, reason: &str) -> Result<(), Refused>
        ensures open { OnOk result (open_session self.old session ≡ Ok tt) }
        ensures refused { IfErr result (λ e. IsRefused e self.old self.new) }
        ensures own { UntouchedBut session self.old.streams.entries self.new.streams.entries }
        ensures left { Left self.old.streams.entries self.new.streams.entries }
        ensures config { self.new.config ≡ self.old.config }
        ensures goes { GoesOn [] self.old self.new }
        ensures closes { OnOk result (ChangesThen session (ClosesSession code reason.now) self.old self.new) }
        ensures cut { OnOk result (AreCut session self.old.streams.entries self.new.streams.entries) }
        ensures over { OnOk result (holds_in (entry_at self.new.streams.entries session) ≡ false) }
        ensures lasts { LastsBut session self.old self.new }
        ensures works { WorksOn self.old self.new }
    {
        self.check_session(session)?;
        self.put_close(session, code, reason)?;
        Ok(self.session_ended(session)?)
    }

    // Queues the end of a session.
    #[tactic(auto, using(crate::proofs::ActLemmas::act, crate::proofs::ActLemmas::act_still, crate::proofs::ActLemmas::act_kept, crate::proofs::KeepsLemmas::kept, crate::proofs::TheirsLemmas::left_set, std::proofs::lemmas::Map::Steps::set_value_same, crate::proofs::GoesLemmas::goes_set, crate::proofs::LastsLemmas::lasts_refl))]
    fn put_close(&mut self, session: u64, code: u32, reason: &str) -> Result<(), Refused>
        ensures closes { OnOk result (Changes session (ClosesSession code reason.now) self.old self.new) }
        ensures kept { OnErr result (IsStill self.old self.new) }
        ensures own { UntouchedBut session self.old.streams.entries self.new.streams.entries }
        ensures left { Left self.old.streams.entries self.new.streams.entries }
        ensures config { self.new.config ≡ self.old.config }
        ensures goes { GoesOn [] self.old self.new }
        ensures lasts { LastsBut session self.old self.new }
        ensures works { WorksOn self.old self.new }
    {
        self.begin_send(session)?;
        self.close_half(session, code, reason)
    }

    // Ends the own half of a session, by its end or by a code and a reason.
    #[tactic(auto, using(crate::proofs::ActLemmas::act, crate::proofs::ActLemmas::act_still, crate::proofs::ActLemmas::act_kept, crate::proofs::KeepsLemmas::kept, crate::proofs::TheirsLemmas::left_set, std::proofs::lemmas::Map::Steps::set_value_same, crate::proofs::GoesLemmas::goes_set, crate::proofs::PlaceLemmas::ordered, crate::proofs::PlaceLemmas::ordered_sent, crate::proofs::LastsLemmas::lasts_refl))]
    fn close_half(&mut self, session: u64, code: u32, reason: &str) -> Result<(), Refused>
        ensures closes { OnOk result (Changes session (ClosesSession code reason.now) self.old self.new) }
        ensures kept { OnErr result (IsStill self.old self.new) }
        ensures own { UntouchedBut session self.old.streams.entries self.new.streams.entries }
        ensures left { Left self.old.streams.entries self.new.streams.entries }
        ensures config { self.new.config ≡ self.old.config }
        ensures goes { GoesOn [] self.old self.new }
        ensures lasts { LastsBut session self.old self.new }
        ensures works { WorksOn self.old self.new }
    {
        if says_nothing(code, reason) {
            return self.end_half(session);
        }
        self.say_close(session, code, reason)
    }

    // Ends the own half of a session by its end.
    #[tactic(auto, using(crate::proofs::ActLemmas::act, crate::proofs::ActLemmas::act_still, crate::proofs::ActLemmas::act_kept, crate::proofs::KeepsLemmas::kept, crate::proofs::TheirsLemmas::left_set, std::proofs::lemmas::Map::Steps::set_value_same, crate::proofs::GoesLemmas::goes_set, crate::proofs::PlaceLemmas::ordered, crate::proofs::JoinedLemmas::joined, crate::proofs::LastsLemmas::lasts_refl, crate::proofs::LastsLemmas::lasts_but_set))]
    fn end_half(&mut self, session: u64) -> Result<(), Refused>
        ensures ends { OnOk result (Changes session EndsHalf self.old self.new) }
        ensures kept { OnErr result (IsStill self.old self.new) }
        ensures own { UntouchedBut session self.old.streams.entries self.new.streams.entries }
        ensures left { Left self.old.streams.entries self.new.streams.entries }
        ensures config { self.new.config ≡ self.old.config }
        ensures goes { GoesOn [] self.old self.new }
        ensures lasts { LastsBut session self.old self.new }
        ensures works { WorksOn self.old self.new }
    {
        let Some(entry) = self.streams.get_mut(&session) else {
            return Err(Refused::NotOpen);
        };
        self.unplaced = take_place(&mut self.ready, self.unplaced, session, entry)?;
        let result = entry.writing.finish();
        keep_place(&mut self.ready, session, entry);
        Ok(result?)
    }

    // Ends the own half of a session by a code and a reason.
    #[tactic(auto, using(crate::proofs::ActLemmas::act, crate::proofs::ActLemmas::act_still, crate::proofs::ActLemmas::act_kept, crate::proofs::KeepsLemmas::kept, crate::proofs::TheirsLemmas::left_set, std::proofs::lemmas::Map::Steps::set_value_same, crate::proofs::GoesLemmas::goes_set, crate::proofs::PlaceLemmas::ordered, crate::proofs::JoinedLemmas::joined, crate::proofs::LastsLemmas::lasts_refl, crate::proofs::LastsLemmas::lasts_but_set))]
    fn say_close(&mut self, session: u64, code: u32, reason: &str) -> Result<(), Refused>
        ensures closes { OnOk result (Changes session (ClosesHalf code reason.now) self.old self.new) }
        ensures kept { OnErr result (IsStill self.old self.new) }
        ensures own { UntouchedBut session self.old.streams.entries self.new.streams.entries }
        ensures left { Left self.old.streams.entries self.new.streams.entries }
        ensures config { self.new.config ≡ self.old.config }
        ensures goes { GoesOn [] self.old self.new }
        ensures lasts { LastsBut session self.old self.new }
        ensures works { WorksOn self.old self.new }
    {
        let Some(entry) = self.streams.get_mut(&session) else {
            return Err(Refused::NotOpen);
        };
        self.unplaced = take_place(&mut self.ready, self.unplaced, session, entry)?;
        let result = entry
            .writing
            .close(self.alloc, &mut self.tools.spares, code, reason);
        keep_place(&mut self.ready, session, entry);
        Ok(result?)
    }

    // The end of a session is queued: what follows for its streams.
    #[tactic(auto, using(crate::proofs::KeepsLemmas::but))]
    fn session_ended(&mut self, session: u64) -> Result<(), AllocError>
        ensures keeps { KeepsBut session self.old self.new }
        ensures cut { OnOk result (AreCut session self.old.streams.entries self.new.streams.entries) }
        ensures over { OnOk result (holds_in (entry_at self.new.streams.entries session) ≡ false) }
    {
        self.end_session(session)?;
        self.drop_peer(session)?;
        self.cancel_left(session);
        self.forget_if_done(session)
    }
}

// Returns whether a session is closed by the end of its stream alone, without a code and a reason.
fn says_nothing(code: u32, reason: &str) -> bool
    ensures { result ≡ (code == 0 && length reason.now == 0) }
{
    code == 0 && reason.is_empty()
}
