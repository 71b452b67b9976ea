//! Messages that are sent.
ghost use Rattle.std.specs.Prelude.{◌≡◌, ◌⊎◌, false, true, is_some, is_ok, None, Some, OnOk, OnErr, IfOk, IfErr, length, []};
ghost use Rattle.vesgrauf_stream.specs.Writing.{Sends};
ghost use Rattle.vesgrauf_stream.specs.Headers.{response_at, SendsHeaders, SendsTrailers, RefusesTrailers};
ghost use Rattle.vesgrauf_stream.specs.declared.tools.Tools.{Tools as ToolsOf};
ghost use Rattle.vesgrauf.specs.Messages.{allowed, IsSameBut, ChangesBy, ChangesThen, ClosesSession};
ghost use Rattle.vesgrauf.specs.Halves.{LastsBut, LastsOn};
ghost use Rattle.vesgrauf.specs.Keeps.{Keeps, KeepsBut};
ghost use Rattle.vesgrauf.specs.Cuts.{AreCut};
ghost use Rattle.vesgrauf.specs.Joined.{holds_in};
ghost use Rattle.vesgrauf.specs.Own.{UntouchedBut, entry_at};
ghost use Rattle.vesgrauf.specs.Theirs.{Left};
ghost use Rattle.vesgrauf.specs.Told.{GoesOn};
ghost use Rattle.vesgrauf.specs.State.{stream_at, Changes, IsFor, IsStill, IsStillBut, IsRefused, SaysOrWaits, StaysFor, IsWhy, IsWhyOf, RefusesBytes, RefusesEnd, FinishesUnless, was_finished, was_told_full, is_over, open_session};
ghost use Rattle.vesgrauf.specs.declared.refused.Refused.TheVariants as refused;
ghost use Rattle.vesgrauf.specs.Works.{WorksOn};

use crate::connection::heads::{accepts, session_id, status_of};
use crate::connection::placing::{keep_place, take_place};
use crate::connection::{Connection, Stop};
use crate::entry::Peer;
use crate::refused::{NotSent, Refused};
use std::alloc::AllocError;
use wtp_connection::connection::Known;
use wtp_core::error::Code;
use wtp_core::ids::SessionId;
use wtp_fields::fields::FieldList;
use wtp_sending::peer::Peer as Allows;

#[tactic(auto, using(crate::proofs::KeepsLemmas::keep))]
impl Connection {
    // Returns what the peer allows to be sent.
    pub(super) fn allows(&self) -> Allows
        ensures { result ≡ allowed self.now }
    {
        let settings = self.shared.peer_settings();
        Allows {
            extended_connect: settings.enable_connect_protocol,
            sessions: self.shared.allows_sessions(),
            max_section: settings.max_field_section_size.unwrap_or(u64::MAX),
        }
    }

    /// Sends a response, at a server: its HEADERS, and with `fin` its end. Interim responses come before the final one.
    /// A 2xx response to a CONNECT request opens the session.
    ///
    /// # Errors
    ///
    /// Nothing changes, but QPACK's table and what is queued for it. `Closed`; `NoStream` if no request came on the stream;
    /// `Over`; `Send` if it would be malformed; and `Memory`.
    #[tactic(auto, using(crate::proofs::ActLemmas::act, crate::proofs::ActLemmas::act_still, crate::proofs::ActLemmas::act_kept, crate::proofs::KeepsLemmas::kept, crate::proofs::OwnLemmas::but_then, crate::proofs::StepLemmas::left_trans, crate::proofs::LastsLemmas::lasts_refl))]
    pub fn respond(&mut self, id: u64, list: &FieldList, fin: bool) -> Result<(), Refused>
        ensures refused { IfErr result (λ e. (e ≡ refused.Memory) ⊎ IsStillBut self.old self.new) }
        ensures own { UntouchedBut id self.old.streams.entries self.new.streams.entries }
        ensures left { Left self.old.streams.entries self.new.streams.entries }
        ensures config { self.new.config ≡ self.old.config }
        ensures goes { GoesOn [] self.old self.new }
        ensures ends { is_over self.old ≡ true → is_over self.new ≡ true }
        ensures lives { OnOk result (is_over self.old ≡ false) }
        ensures responds { OnOk result ((s : ToolsOf) × (t : ToolsOf) × IsSameBut self.old.tools s × ChangesThen id
            (λ v w. SendsHeaders (response_at v id (allowed self.old)) list.now fin s t v w) self.old self.new) }
        ensures lasts { LastsBut id self.old self.new }
        ensures works { WorksOn self.old self.new }
    {
        self.begin_send(id)?;
        self.choose_policy();
        let result = self.put_response(id, list, fin);
        self.queue_due();
        result?;
        Ok(self.responded(id, list, fin)?)
    }

    // Queues the HEADERS of a response, and maybe the end.
    #[tactic(auto, using(crate::proofs::ActLemmas::act, crate::proofs::ActLemmas::act_still, crate::proofs::ActLemmas::act_kept, crate::proofs::KeepsLemmas::kept, crate::proofs::TheirsLemmas::left_set, std::proofs::lemmas::Map::Steps::set_value_same, crate::proofs::GoesLemmas::goes_set, crate::proofs::LastsLemmas::lasts_refl))]
    fn put_response(&mut self, id: u64, list: &FieldList, fin: bool) -> Result<(), Refused>
        ensures ok { OnOk result (Changes id (λ v w. SendsHeaders (response_at v id (allowed self.old)) list.now fin
            self.old.tools self.new.tools v w) self.old self.new) }
        ensures kept { OnErr result (IsStill self.old self.new) }
        ensures own { UntouchedBut id self.old.streams.entries self.new.streams.entries }
        ensures left { Left self.old.streams.entries self.new.streams.entries }
        ensures config { self.new.config ≡ self.old.config }
        ensures goes { GoesOn [] self.old self.new }
        ensures lasts { LastsBut id self.old self.new }
        ensures works { WorksOn self.old self.new }
    {
        match session_id(id) {
            Ok(session) => self.respond_half(id, session, list, fin),
            Err(_) => Err(Refused::NoStream),
        }
    }

    // Queues the HEADERS of a response, and maybe the end, on the own half of a stream.
    #[tactic(auto, using(crate::proofs::ActLemmas::act, crate::proofs::ActLemmas::act_still, crate::proofs::ActLemmas::act_kept, crate::proofs::KeepsLemmas::kept, crate::proofs::TheirsLemmas::left_set, std::proofs::lemmas::Map::Steps::set_value_same, crate::proofs::GoesLemmas::goes_set, crate::proofs::PlaceLemmas::ordered, crate::proofs::JoinedLemmas::joined, crate::proofs::PlaceLemmas::ordered_sent, crate::proofs::LastsLemmas::lasts_refl, crate::proofs::LastsLemmas::lasts_but_set))]
    fn respond_half(
        &mut self,
        id: u64,
        session: SessionId,
        list: &FieldList,
        fin: bool,
    ) -> Result<(), Refused>
        ensures ok { OnOk result (Changes id (λ v w. SendsHeaders (response_at v session (allowed self.old))
            list.now fin self.old.tools self.new.tools v w) self.old self.new) }
        ensures kept { OnErr result (IsStill self.old self.new) }
        ensures own { UntouchedBut id self.old.streams.entries self.new.streams.entries }
        ensures left { Left self.old.streams.entries self.new.streams.entries }
        ensures config { self.new.config ≡ self.old.config }
        ensures goes { GoesOn [] self.old self.new }
        ensures lasts { LastsBut id self.old self.new }
        ensures works { WorksOn self.old self.new }
    {
        let allows = self.allows();
        let Some(entry) = self.streams.get_mut(&id) else {
            return Err(Refused::NoStream);
        };
        self.unplaced = take_place(&mut self.ready, self.unplaced, id, entry)?;
        let sent = entry
            .writing
            .respond(&mut self.tools, session, allows, list, fin);
        keep_place(&mut self.ready, id, entry);
        Ok(sent?)
    }

    // A response was sent: what follows for its stream, and for a session.
    #[tactic(auto, using(crate::proofs::KeepsLemmas::but))]
    fn responded(&mut self, id: u64, list: &FieldList, fin: bool) -> Result<(), AllocError>
        ensures keeps { KeepsBut id self.old self.new }
    {
        if let Some(status) = status_of(list) {
            self.answered(id, status);
            if status >= 300 {
                // (there is no session then)
                self.end_session(id)?;
            }
        }
        if fin && matches!(self.known(id), Known::Open) {
            self.end_session(id)?;
            self.drop_peer(id)?;
            self.cancel_left(id);
        } else if accepts(list) && self.peer_of(id) == Peer::Over {
            // (a session whose own stream was stopped here before its answer does not come to be)
            self.lose_session(id)?;
        } else if fin && self.refuses(id) {
            self.stop_refused(id)?;
        }
        Ok(())
    }

    // Returns whether the request on a stream is a CONNECT that opened nothing.
    fn refuses(&self, id: u64) -> bool {
        match self.streams.get(&id) {
            Some(entry) => entry.is_session || entry.has_tunnel,
            None => false,
        }
    }

    // Reads no further on the stream of a CONNECT that was refused: nothing that follows has a meaning.
    #[tactic(auto, using(crate::proofs::KeepsLemmas::but))]
    pub(super) fn stop_refused(&mut self, id: u64) -> Result<(), AllocError>
        ensures keeps { KeepsBut id self.old self.new }
    {
        let code = Code::H3_NO_ERROR.number().into_inner();
        self.stop_peer(id, code)?;
        self.cancel_left(id);
        self.remove_if_done(id)
    }

    // A response with this status was sent.
    fn answered(&mut self, id: u64, status: u32)
        ensures keeps { Keeps [] self.old self.new }
    {
        if status < 200 {
            return;
        }
        let (was_awaited, opens) = self.note_answer(id, status);
        if was_awaited {
            self.budget.answered();
        }
        if opens {
            let _decided = self.datagrams.opened.push_back(id);
        }
        self.wake();
    }

    // A final response with this status was sent. Returns whether it was awaited, and whether it opens a session.
    #[tactic(auto, using(crate::proofs::KeepsLemmas::keep, crate::proofs::KeepsLemmas::keeps_turned, crate::proofs::PlaceLemmas::ordered, crate::proofs::JoinedLemmas::joined))]
    fn note_answer(&mut self, id: u64, status: u32) -> (bool, bool)
        ensures keeps { Keeps [] self.old self.new }
    {
        let Some(entry) = self.streams.get_mut(&id) else {
            return (false, false);
        };
        entry.reading.answer(status);
        entry.has_tunnel = entry.has_tunnel & (status >= 300);
        let was_awaited = entry.is_awaited;
        entry.is_awaited = false;
        (was_awaited, entry.has_session & (status < 300))
    }

    /// Sends content of a message, in one DATA frame, or bytes of a stream of a session; and with `fin` the end. Returns
    /// false if as many bytes are queued as [`send_buffer`](crate::config::Config) says: unless the end is among them, an
    /// event [`Writable`](crate::event::EventKind) follows when half of them are sent.
    ///
    /// # Errors
    ///
    /// Nothing is queued. `Full` if a call returned false, and as many bytes are queued still: the `Writable` is to come.
    /// `Closed`; `NoStream`; `Over`; `Send`; and `Memory`.
    #[tactic(auto, using(crate::proofs::ActLemmas::act, crate::proofs::ActLemmas::act_still, crate::proofs::ActLemmas::act_kept, crate::proofs::KeepsLemmas::kept, std::proofs::lemmas::Map::Steps::set_value_same, crate::proofs::GoesLemmas::goes_set, crate::proofs::SendsLemmas::lasts_between, crate::proofs::SendsLemmas::lasts_same))]
    pub fn send(&mut self, id: u64, bytes: &[u8], fin: bool) -> Result<bool, Refused>
        ensures ok { IfOk result (λ room. Changes id (Sends bytes.now fin room) self.old self.new) }
        ensures lives { OnOk result (is_over self.old ≡ false) }
        ensures why { IfErr result (λ e. IsWhy (RefusesBytes (length bytes.now) fin) self.old id e) }
        ensures told { IfErr result (λ e. e ≡ refused.Full → was_told_full self.old id ≡ true) }
        ensures kept { IfErr result (λ e. StaysFor e id self.old self.new) }
        ensures goes { GoesOn [] self.old self.new }
        ensures lasts { LastsOn [] self.old self.new }
        ensures works { WorksOn self.old self.new }
    {
        let was_full = self.begin_content(id)?;
        let result = self.send_half(id, bytes, fin, was_full);
        self.note_full(id, was_full | fills(&result));
        result
    }

    // Begins a call that sends content: reserves memory, and counts the stream to those of which a `Writable` is owed. Returns
    // whether it is one of them already.
    #[inline(always)]
    fn begin_content(&mut self, id: u64) -> Result<bool, Refused>
        ensures still { IsStill self.old self.new }
        ensures was { IfOk result (λ was. was ≡ was_told_full self.old id) }
        ensures ok { OnOk result ((is_over self.old ≡ false) × (is_some (stream_at self.old id) ≡ true)) }
        ensures err { IfErr result (λ e. ((e ≡ refused.Closed) × (is_over self.old ≡ true))
            ⊎ (((e ≡ refused.NoStream) × (is_over self.old ≡ false) × (stream_at self.old id ≡ None))
            ⊎ ((e ≡ refused.Memory) × (is_over self.old ≡ false)))) }
    {
        let was_full = self.full.contains(&id);
        self.begin_send(id)?;
        if self.full.insert(id).is_err() {
            return Err(Refused::Memory);
        }
        Ok(was_full)
    }

    // Queues content on the own half of a stream.
    #[inline(always)]
    #[tactic(auto, using(crate::proofs::ActLemmas::act, crate::proofs::ActLemmas::act_still, crate::proofs::ActLemmas::act_kept, crate::proofs::KeepsLemmas::kept, std::proofs::lemmas::Map::Steps::set_value_same, crate::proofs::GoesLemmas::goes_set, crate::proofs::PlaceLemmas::ordered, crate::proofs::JoinedLemmas::joined, crate::proofs::PlaceLemmas::ordered_sent, crate::proofs::LastsLemmas::lasts_refl))]
    fn send_half(
        &mut self,
        id: u64,
        bytes: &[u8],
        fin: bool,
        was_full: bool,
    ) -> Result<bool, Refused>
        ensures ok { IfOk result (λ room. Changes id (Sends bytes.now fin room) self.old self.new) }
        ensures why { IfErr result (λ e. (e ≡ refused.Memory)
            ⊎ IsWhyOf (stream_at self.old id) (RefusesBytes (length bytes.now) fin) e) }
        ensures told { IfErr result (λ e. e ≡ refused.Full → was_full ≡ true) }
        ensures kept { IfErr result (λ e. StaysFor e id self.old self.new) }
        ensures goes { GoesOn [] self.old self.new }
        ensures lasts { LastsOn [] self.old self.new }
        ensures works { WorksOn self.old self.new }
    {
        let Some(entry) = self.streams.get_mut(&id) else {
            return Err(Refused::NoStream);
        };
        self.unplaced = take_place(&mut self.ready, self.unplaced, id, entry)?;
        let result = entry.send(&mut self.tools.spares, bytes, fin, was_full);
        keep_place(&mut self.ready, id, entry);
        result
    }

    /// Sends bytes as [`send`](Self::send) does. 4,096 bytes or more are not copied.
    ///
    /// # Errors
    ///
    /// Those of [`send`](Self::send), with the bytes.
    #[tactic(auto, using(crate::proofs::ActLemmas::act, crate::proofs::ActLemmas::act_still, crate::proofs::ActLemmas::act_kept, crate::proofs::KeepsLemmas::kept, std::proofs::lemmas::Map::Steps::set_value_same, crate::proofs::GoesLemmas::goes_set, crate::proofs::SendsLemmas::lasts_between, crate::proofs::SendsLemmas::lasts_same))]
    pub fn send_owned(&mut self, id: u64, bytes: Vec<u8>, fin: bool) -> Result<bool, NotSent>
        ensures ok { IfOk result (λ room. Changes id (Sends bytes.items fin room) self.old self.new) }
        ensures lives { OnOk result (is_over self.old ≡ false) }
        ensures why { IfErr result (λ e. IsWhy (RefusesBytes (length bytes.items) fin) self.old id e.why) }
        ensures told { IfErr result (λ e. e.why ≡ refused.Full → was_told_full self.old id ≡ true) }
        ensures kept { IfErr result (λ e. StaysFor e.why id self.old self.new) }
        ensures bytes { IfErr result (λ e. e.bytes ≡ bytes) }
        ensures goes { GoesOn [] self.old self.new }
        ensures lasts { LastsOn [] self.old self.new }
        ensures works { WorksOn self.old self.new }
    {
        let was_full = match self.begin_content(id) {
            Ok(was_full) => was_full,
            Err(why) => return Err(NotSent { why, bytes }),
        };
        let result = self.send_half_owned(id, bytes, fin, was_full);
        self.note_full(id, was_full | fills(&result));
        result
    }

    // Queues content on the own half of a stream, or gives the bytes back.
    #[tactic(auto, using(crate::proofs::ActLemmas::act, crate::proofs::ActLemmas::act_still, crate::proofs::ActLemmas::act_kept, crate::proofs::KeepsLemmas::kept, std::proofs::lemmas::Map::Steps::set_value_same, crate::proofs::GoesLemmas::goes_set, crate::proofs::PlaceLemmas::ordered, crate::proofs::JoinedLemmas::joined, crate::proofs::PlaceLemmas::ordered_sent, crate::proofs::LastsLemmas::lasts_refl))]
    fn send_half_owned(
        &mut self,
        id: u64,
        bytes: Vec<u8>,
        fin: bool,
        was_full: bool,
    ) -> Result<bool, NotSent>
        ensures ok { IfOk result (λ room. Changes id (Sends bytes.items fin room) self.old self.new) }
        ensures why { IfErr result (λ e. (e.why ≡ refused.Memory)
            ⊎ IsWhyOf (stream_at self.old id) (RefusesBytes (length bytes.items) fin) e.why) }
        ensures told { IfErr result (λ e. e.why ≡ refused.Full → was_full ≡ true) }
        ensures kept { IfErr result (λ e. StaysFor e.why id self.old self.new) }
        ensures bytes { IfErr result (λ e. e.bytes ≡ bytes) }
        ensures goes { GoesOn [] self.old self.new }
        ensures lasts { LastsOn [] self.old self.new }
        ensures works { WorksOn self.old self.new }
    {
        let Some(entry) = self.streams.get_mut(&id) else {
            return Err(NotSent {
                why: Refused::NoStream,
                bytes,
            });
        };
        match take_place(&mut self.ready, self.unplaced, id, entry) {
            Ok(later) => self.unplaced = later,
            Err(_) => {
                return Err(NotSent {
                    why: Refused::Memory,
                    bytes,
                });
            }
        }
        let result = entry.send_owned(&mut self.tools.spares, bytes, fin, was_full);
        keep_place(&mut self.ready, id, entry);
        result
    }

    // Keeps a stream among those of which a `Writable` is owed only if the program was told that it is full, and may send
    // more.
    fn note_full(&mut self, id: u64, is_told: bool)
        ensures { IsStill self.old self.new }
    {
        let has_more = match self.streams.get(&id) {
            Some(entry) => !entry.writing.is_ended(),
            None => false,
        };
        if !is_told || !has_more {
            self.full.remove(&id);
        }
    }

    /// Sends the trailers of a message, and its end.
    ///
    /// # Errors
    ///
    /// Nothing changes, but QPACK's table and what is queued for it. `Closed`; `NoStream`; `Over`; `Send` if they would be
    /// malformed; and `Memory`.
    #[tactic(auto, using(crate::proofs::ActLemmas::act, crate::proofs::ActLemmas::act_still, crate::proofs::ActLemmas::act_kept, crate::proofs::KeepsLemmas::kept, crate::proofs::SendsLemmas::lasts_between, crate::proofs::SendsLemmas::lasts_same))]
    pub fn send_trailers(&mut self, id: u64, list: &FieldList) -> Result<(), Refused>
        ensures kept { OnErr result (IsStillBut self.old self.new) }
        ensures decoder { SaysOrWaits self.old.told.items self.new.told.items self.old.decoder self.new.decoder }
        ensures goes { GoesOn [] self.old self.new }
        ensures lasts { LastsOn [] self.old self.new }
        ensures ok { OnOk result (ChangesBy id (SendsTrailers list.now) self.old self.new) }
        ensures lives { OnOk result (is_over self.old ≡ false) }
        ensures works { WorksOn self.old self.new }
    {
        self.begin_send(id)?;
        self.choose_policy();
        let result = self.put_trailers(id, list);
        self.queue_due();
        result
    }

    // Queues trailers and the end on a stream.
    #[tactic(auto, using(crate::proofs::ActLemmas::act, crate::proofs::ActLemmas::act_still, crate::proofs::ActLemmas::act_kept, crate::proofs::KeepsLemmas::kept, std::proofs::lemmas::Map::Steps::set_value_same, crate::proofs::GoesLemmas::goes_set, crate::proofs::PlaceLemmas::ordered, crate::proofs::JoinedLemmas::joined, crate::proofs::PlaceLemmas::ordered_sent, crate::proofs::LastsLemmas::lasts_refl))]
    fn put_trailers(&mut self, id: u64, list: &FieldList) -> Result<(), Refused>
        ensures ok { OnOk result (Changes id (SendsTrailers list.now self.old.tools self.new.tools)
            self.old self.new) }
        ensures kept { OnErr result (IsStill self.old self.new) }
        ensures why { IfErr result (λ e. (e ≡ refused.Memory) ⊎ IsWhyOf (stream_at self.old id)
            (IsFor (RefusesTrailers list.now self.old.tools self.new.tools)) e) }
        ensures goes { GoesOn [] self.old self.new }
        ensures lasts { LastsOn [] self.old self.new }
        ensures works { WorksOn self.old self.new }
    {
        let Some(entry) = self.streams.get_mut(&id) else {
            return Err(Refused::NoStream);
        };
        self.unplaced = take_place(&mut self.ready, self.unplaced, id, entry)?;
        let result = entry.writing.trailers(&mut self.tools, list);
        keep_place(&mut self.ready, id, entry);
        Ok(result?)
    }

    /// Ends the own half of a stream after what is queued. The end of a session's own stream closes the session, with
    /// code 0 and no reason (draft-ietf-webtrans-http3-02, section 5). Nothing changes if the own half was finished before, if
    /// there is none, and if the stream is over.
    ///
    /// # Errors
    ///
    /// Nothing changes. `Closed`; `NoStream` if there never was such a stream; `Over` if it was reset; `Send` if the message
    /// may not end here; and `Memory`.
    #[tactic(auto, using(crate::proofs::ActLemmas::act, crate::proofs::ActLemmas::act_still, crate::proofs::ActLemmas::act_kept, crate::proofs::KeepsLemmas::kept, crate::proofs::LastsLemmas::lasts_refl))]
    pub fn finish(&mut self, id: u64) -> Result<(), Refused>
        ensures refused { IfErr result (λ e. IsRefused e self.old self.new) }
        ensures half { is_ok (open_session self.old id) ≡ false
            → OnOk result (FinishesUnless (was_finished self.old id) id self.old self.new) }
        ensures session { is_ok (open_session self.old id) ≡ true
            → OnOk result (ChangesThen id (ClosesSession 0 []) self.old self.new) }
        ensures lives { OnOk result (is_over self.old ≡ false) }
        ensures cut { is_ok (open_session self.old id) ≡ true
            → OnOk result (AreCut id self.old.streams.entries self.new.streams.entries) }
        ensures over { is_ok (open_session self.old id) ≡ true
            → OnOk result (holds_in (entry_at self.new.streams.entries id) ≡ false) }
        ensures own { UntouchedBut id self.old.streams.entries self.new.streams.entries }
        ensures left { Left self.old.streams.entries self.new.streams.entries }
        ensures config { self.new.config ≡ self.old.config }
        ensures goes { GoesOn [] self.old self.new }
        ensures lasts { LastsBut id self.old self.new }
        ensures works { WorksOn self.old self.new }
    {
        if self.check_session(id).is_ok() {
            return self.close_session(id, 0, "");
        }
        self.finish_half(id)
    }

    // Ends the own half of a stream that is not that of a session.
    #[tactic(auto, using(crate::proofs::ActLemmas::act, crate::proofs::ActLemmas::act_still, crate::proofs::ActLemmas::act_kept, crate::proofs::KeepsLemmas::kept, crate::proofs::TheirsLemmas::left_set, std::proofs::lemmas::Map::Steps::set_value_same, crate::proofs::GoesLemmas::goes_set, crate::proofs::PlaceLemmas::ordered, crate::proofs::JoinedLemmas::joined, crate::proofs::PlaceLemmas::ordered_sent, crate::proofs::LastsLemmas::lasts_refl, crate::proofs::LastsLemmas::lasts_but_set))]
    fn finish_half(&mut self, id: u64) -> Result<(), Refused>
        ensures ok { OnOk result (FinishesUnless (was_finished self.old id) id self.old self.new) }
        ensures lives { OnOk result (is_over self.old ≡ false) }
        ensures why { IfErr result (λ e. IsWhy RefusesEnd self.old id e) }
        ensures kept { OnErr result (IsStill self.old self.new) }
        ensures own { UntouchedBut id self.old.streams.entries self.new.streams.entries }
        ensures left { Left self.old.streams.entries self.new.streams.entries }
        ensures config { self.new.config ≡ self.old.config }
        ensures goes { GoesOn [] self.old self.new }
        ensures lasts { LastsBut id self.old self.new }
        ensures works { WorksOn self.old self.new }
    {
        if self.ended.is_some() {
            return Err(Refused::Closed);
        }
        if self.is_finished(id) {
            return Ok(());
        }
        self.begin_send(id)?;
        let Some(entry) = self.streams.get_mut(&id) else {
            return Err(Refused::NoStream);
        };
        self.unplaced = take_place(&mut self.ready, self.unplaced, id, entry)?;
        let result = entry.writing.finish();
        keep_place(&mut self.ready, id, entry);
        Ok(result?)
    }

    // Returns whether the own half of a stream was finished, or there is none.
    fn is_finished(&self, id: u64) -> bool
        ensures { result ≡ was_finished self.now id }
    {
        match self.streams.get(&id) {
            Some(entry) => entry.writing.is_finished() || entry.writing.is_none(),
            None => self.ids.was(id),
        }
    }

    // Begins a call that sends on a stream: reserves memory.
    pub(super) fn begin_send(&mut self, id: u64) -> Result<(), Refused>
        ensures still { IsStill self.old self.new }
        ensures tools { self.new.tools ≡ self.old.tools }
        ensures ok { OnOk result ((is_over self.old ≡ false) × (is_some (stream_at self.old id) ≡ true)) }
        ensures err { IfErr result (λ e. ((e ≡ refused.Closed) × (is_over self.old ≡ true))
            ⊎ (((e ≡ refused.NoStream) × (is_over self.old ≡ false) × (stream_at self.old id ≡ None))
            ⊎ ((e ≡ refused.Memory) × (is_over self.old ≡ false)))) }
    {
        if self.ended.is_some() {
            return Err(Refused::Closed);
        }
        self.reserve()?;
        match self.streams.get(&id) {
            Some(_) => Ok(()),
            None => Err(Refused::NoStream),
        }
    }
}

impl From<Stop> for Refused {
    fn from(stop: Stop) -> Refused {
        match stop {
            Stop::Memory => Refused::Memory,
            Stop::Broken(_, _) => Refused::Closed,
        }
    }
}

// Returns whether a call says that the stream is full.
fn fills<E>(sent: &Result<bool, E>) -> bool {
    matches!(sent, Ok(false))
}
