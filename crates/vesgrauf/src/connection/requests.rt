//! Requests that are sent.
ghost use Rattle.std.specs.Prelude.{◌≡◌, nat_lt, not, false, true, is_some, Some, None, OnOk, OnErr, IfOk, IfErr, []};
ghost use Rattle.vesgrauf_stream.specs.Headers.{request_at, SendsHeaders};
ghost use Rattle.vesgrauf_stream.specs.Reading.{kept_of};
ghost use Rattle.vesgrauf.specs.Halves.{LastsOn};
ghost use Rattle.vesgrauf.specs.Instructions.{table_of};
ghost use Rattle.vesgrauf.specs.Keeps.{Keeps};
ghost use Rattle.vesgrauf.specs.Messages.{allowed, Encodes, IsRequest};
ghost use Rattle.vesgrauf.specs.Ids.{next_own, taken};
ghost use Rattle.vesgrauf.specs.Streams.{new_entry};
ghost use Rattle.vesgrauf.specs.declared.entry.Peer.TheVariants as peers;
ghost use Rattle.vesgrauf.specs.Joined.{holds_in};
ghost use Rattle.vesgrauf.specs.Limits.{most_sessions};
ghost use Rattle.vesgrauf.specs.Members.{session_in};
ghost use Rattle.vesgrauf.specs.Own.{entry_at, UntouchedBut};
ghost use Rattle.vesgrauf.specs.Told.{GoesOn, AreOthers, IsUndone, knows};
ghost use Rattle.wtp_frames.specs.declared.endpoint.Side.TheVariants as side;
ghost use Rattle.vesgrauf.specs.State.{is_over, stream_at, knows_of, may_wait, view_of, with_own, Of};
ghost use Rattle.vesgrauf.specs.declared.output.StreamKind.TheVariants as kinds;
ghost use Rattle.vesgrauf.specs.declared.refused.Refused.TheVariants as refused;

use crate::connection::Connection;
use crate::connection::heads::{asked_of, is_extended, session_id};
use crate::entry::{Entry, Peer, SHARED, Told};
use crate::output::StreamKind;
use crate::refused::Refused;
use vesgrauf_stream::reading::Reading;
use vesgrauf_stream::writing::Writing;
use wtp_fields::fields::FieldList;
use wtp_frames::endpoint::Side;
use wtp_messages::response::Asked;
use wtp_sending::error::SendError;

#[tactic(auto, using(crate::proofs::KeepsLemmas::keep))]
impl Connection {
    /// Sends a request, at a client: its HEADERS, and with `fin` its end. Returns the ID of its stream. A request for a
    /// session has no end, which would close the session.
    ///
    /// # Errors
    ///
    /// Nothing changes, but QPACK's table and what is queued for it. `Closed`; `WrongSide` at a server; `GoAway`; for an extended CONNECT, such as a request for a
    /// session, `NotReady` until SETTINGS of the peer came; `TooManySessions` if as many sessions are open as the peer
    /// allows; `Full` if as many requests wait for QUIC as [`max_unopened`](crate::config::Config) says: an event
    /// [`Openable`](crate::event::EventKind) follows; `NoMoreIds`; `Send` if it would be malformed or the peer does not
    /// support it; and `Memory`.
    #[tactic(auto, using(crate::proofs::KeepsLemmas::kept, crate::proofs::IdLemmas::goes_opens, crate::proofs::GoesLemmas::goes_still, crate::proofs::IdLemmas::keeps_still, crate::proofs::JoinedLemmas::joined_taken))]
    pub fn request(&mut self, list: &FieldList, fin: bool) -> Result<u64, Refused>
        ensures id { IfOk result (λ id. id ≡ self.old.ids.bidirectional) }
        ensures room { IfOk result (λ id. may_wait self.old kinds.Bidirectional ≡ true) }
        ensures lives { OnOk result (is_over self.old ≡ false) }
        ensures client { OnOk result (self.old.config.side ≡ side.Client) }
        ensures own { IfOk result (λ id. UntouchedBut id self.old.streams.entries self.new.streams.entries) }
        ensures alone { IfOk result (λ id. AreOthers id self.old.streams.entries self.new.streams.entries) }
        ensures kept { OnErr result (Keeps [] self.old self.new) }
        ensures same { OnErr result (view_of self.new ≡ record (view_of self.old) { streams = self.new.streams.entries }) }
        ensures undone { OnErr result (IsUndone (next_own self.old.ids kinds.Bidirectional) self.old.streams.entries
            self.new.streams.entries) }
        ensures goes { IfOk result (λ id. GoesOn [] self.old self.new × (knows self.new id ≡ true)) }
        ensures lasts { IfOk result (λ id. LastsOn [] self.old self.new) }
        ensures table { IfOk result (λ id. table_of self.new ≡ table_of self.old) }
        ensures begins { IfOk result (λ id. Of (stream_at self.new id) (λ e. Encodes (λ s t. IsRequest self.old.config
            (λ v w. SendsHeaders (request_at v id (allowed self.old)) list.now fin s t v w) e) self.old self.new)) }
        ensures others { IfOk result (λ id. view_of self.new ≡ with_own self.new (record (view_of self.old) {
          streams = self.new.streams.entries;
          ids = taken self.old.ids kinds.Bidirectional;
          sessions = self.new.sessions;
        })) }
    {
        if self.ended.is_some() {
            return Err(Refused::Closed);
        }
        if self.is_server() {
            return Err(Refused::WrongSide);
        }
        if self.shared.is_unprocessed(u64::MAX) {
            return Err(Refused::GoAway);
        }
        let asked = asked_of(list);
        self.check_asked(asked, list)?;
        self.check_room(StreamKind::Bidirectional)?;
        let Some(id) = self.ids.next(StreamKind::Bidirectional) else {
            return Err(Refused::NoMoreIds);
        };
        self.reserve()?;
        self.choose_policy();
        self.open_request(id, asked, list, fin)?;
        self.ids.take(StreamKind::Bidirectional);
        self.queue_due();
        self.count_asked(asked);
        Ok(id)
    }

    // Counts a session, if it is one that is asked for.
    fn count_asked(&mut self, asked: Asked)
        ensures streams { self.new.streams ≡ self.old.streams }
        ensures ids { self.new.ids ≡ self.old.ids }
        ensures events { self.new.events ≡ self.old.events }
        ensures tools { self.new.tools ≡ self.old.tools }
        ensures others { view_of self.new ≡ record (view_of self.old) { sessions = self.new.sessions } }
    {
        if asked == Asked::Session {
            self.count_session();
        }
    }

    // Counts a session, if there may be one more.
    #[tactic(auto, using(crate::proofs::KeepsLemmas::keep, crate::proofs::LimitLemmas::with_sessions))]
    pub(super) fn count_session(&mut self)
        ensures streams { self.new.streams ≡ self.old.streams }
        ensures ids { self.new.ids ≡ self.old.ids }
        ensures events { self.new.events ≡ self.old.events }
        ensures tools { self.new.tools ≡ self.old.tools }
        ensures others { view_of self.new ≡ record (view_of self.old) { sessions = self.new.sessions } }
        ensures keeps { Keeps [] self.old self.new }
    {
        if !self.has_all_sessions() {
            self.sessions = self.sessions.saturating_add(1);
        }
    }

    // Returns whether there are as many sessions as may be.
    pub(super) fn has_all_sessions(&self) -> bool
        ensures { result ≡ not (nat_lt self.now.sessions (most_sessions self.now.config)) }
    {
        let most = match self.config.side {
            Side::Client => u32::MAX,
            Side::Server => self.config.max_sessions,
        };
        self.sessions >= most
    }

    // Checks that what a request asks for is supported.
    fn check_asked(&self, asked: Asked, list: &FieldList) -> Result<(), Refused> {
        if !is_extended(list) {
            return Ok(());
        }
        if !self.is_configured {
            return Err(Refused::NotReady);
        }
        let peer = self.shared.peer_settings();
        if !peer.enable_connect_protocol {
            return Err(Refused::Send(SendError::Unsupported));
        }
        if asked != Asked::Session {
            return Ok(());
        }
        if !self.shared.allows_sessions() {
            return Err(Refused::Send(SendError::Unsupported));
        }
        let most = peer.webtransport_max_sessions.max(peer.wt_max_sessions);
        if most > 0 && u64::from(self.sessions) >= most {
            return Err(Refused::TooManySessions);
        }
        Ok(())
    }

    // Opens the stream of a request.
    #[tactic(auto, using(crate::proofs::IdLemmas::others_untouched, crate::proofs::PlaceLemmas::ordered_removed, crate::proofs::JoinedLemmas::joined_removed))]
    fn open_request(
        &mut self,
        id: u64,
        asked: Asked,
        list: &FieldList,
        fin: bool,
    ) -> Result<(), Refused>
        ensures begins { OnOk result (Of (stream_at self.new id) (IsRequest self.old.config
            (λ v w. SendsHeaders (request_at v id (allowed self.old)) list.now fin self.old.tools self.new.tools v w))) }
        ensures view { view_of self.new ≡ record (view_of self.old) { streams = self.new.streams.entries } }
        ensures own { OnOk result (UntouchedBut id self.old.streams.entries self.new.streams.entries) }
        ensures known { OnOk result (knows_of (entry_at self.new.streams.entries id) ≡ true) }
        ensures alone { OnOk result (session_in (entry_at self.new.streams.entries id) ≡ None) }
        ensures others { OnOk result (AreOthers id self.old.streams.entries self.new.streams.entries) }
        ensures refused { OnErr result (IsUndone id self.old.streams.entries self.new.streams.entries) }
        ensures events { self.new.events ≡ self.old.events }
        ensures ids { self.new.ids ≡ self.old.ids }
    {
        let session = session_id(id)?;
        if self.has_stream(id) {
            return Err(Refused::NoMoreIds);
        }
        let allows = self.allows();
        // (what a stream takes of memory is taken before the section is encoded)
        let mut blank = self.blank_entry(asked);
        blank.is_opened = false;
        self.put_entry(id, blank)?;
        let mut writing = Writing::idle(self.alloc, self.config.queue());
        if let Err(error) = writing.request(&mut self.tools, session, allows, list, fin) {
            if let Some(blank) = self.streams.remove(&id) {
                self.ready.remove(id, blank.kind());
            }
            return Err(Refused::from(error));
        }
        let mut entry = self.blank_entry(asked);
        entry.writing = writing;
        entry.told = Told::Known;
        entry.is_opened = false;
        entry.may_cancel = true;
        entry.is_session = asked == Asked::Session;
        entry.has_session = asked == Asked::Session;
        entry.has_tunnel = asked == Asked::Connect;
        if asked == Asked::Session || asked == Asked::Connect {
            entry.priority = SHARED;
        }
        self.put_entry(id, entry)
    }

    // Returns the entry of a request that asks for this, of which nothing is said.
    fn blank_entry(&self, asked: Asked) -> Entry
        ensures new { result ≡ new_entry result.reading peers.Reads result.writing }
        ensures unread { (kept_of result.reading ≡ []) × (result.reading.ended ≡ false) }
    {
        let reading = Reading::new(self.alloc, self.shared.open(asked));
        Entry::new(
            reading,
            Peer::Reads,
            Writing::none(self.alloc, self.config.queue()),
        )
    }

    // Puts the entry of a stream in its place, where there was none whose session counts.
    #[tactic(auto, using(crate::proofs::KeepsLemmas::keep, crate::proofs::PlaceLemmas::ordered_new_closed, crate::proofs::PlaceLemmas::ordered_replaced, crate::proofs::JoinedLemmas::joined_put))]
    fn put_entry(&mut self, id: u64, entry: Entry) -> Result<(), Refused>
        requires closed { entry.is_opened ≡ false }
        requires alone { entry.session ≡ None }
        requires free { holds_in (stream_at self.old id) ≡ false }
        ensures here { OnOk result (stream_at self.new id ≡ Some entry) }
        ensures alone { OnOk result (AreOthers id self.old.streams.entries self.new.streams.entries) }
        ensures view { view_of self.new ≡ record (view_of self.old) { streams = self.new.streams.entries } }
        ensures tools { self.new.tools ≡ self.old.tools }
        ensures events { self.new.events ≡ self.old.events }
        ensures refused { IfErr result (λ e. e ≡ refused.Memory) }
        ensures same { OnErr result (self.new.streams.entries ≡ self.old.streams.entries) }
        ensures absent { OnErr result (stream_at self.old id ≡ None) }
    {
        let old = match self.streams.insert(id, entry) {
            Ok(old) => old,
            Err(_) => return Err(Refused::Memory),
        };
        if let Some(old) = old {
            self.ready.remove(id, old.kind());
        }
        Ok(())
    }
}
