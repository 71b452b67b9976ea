//! Streams that are opened.
ghost use Rattle.std.specs.Prelude.{◌≡◌, ◌⊎◌, ◌<◌, ◌||◌, ℕ, List, [], true, false, None, Some, Ok, MatchBool, OnOk, OnErr, IfOk, IfErr, if◌then◌else◌};
ghost use Rattle.wtp_frames.specs.declared.endpoint.Side.TheVariants as side;
ghost use Rattle.vesgrauf.specs.Keeps.{Keeps, KeepsOwn};
ghost use Rattle.vesgrauf.specs.declared.refused.Refused.TheVariants as refused;
ghost use Rattle.vesgrauf.specs.State.{open_session, room_for, may_wait, IsStill, IsRefused, known_in, stream_at, view_of, Of};
ghost use Rattle.vesgrauf.specs.Joined.{holds_in};
ghost use Rattle.vesgrauf.specs.Members.{Notes, is_member, is_same_stream};
ghost use Rattle.wtp_connection.specs.declared.connection.Known.TheVariants as knowns;
ghost use Rattle.vesgrauf.specs.Own.{Open as OpenEnd, Over, Sends, own_of, entry_at, UntouchedBut};
ghost use Rattle.vesgrauf.specs.Places.{has_more};
ghost use Rattle.vesgrauf.specs.Instructions.{table_of};
ghost use Rattle.vesgrauf.specs.Items.{items_of};
ghost use Rattle.vesgrauf.specs.Theirs.{Accepts, IsBlank, theirs_of};
ghost use Rattle.vesgrauf.specs.Told.{GoesOn, AreOthers, knows};
ghost use Rattle.vesgrauf.specs.Halves.{LastsOn};
ghost use Rattle.wtp_webtransport.specs.Events.{told_of};
ghost use Rattle.vesgrauf.specs.Ids.{next_own, taken};
ghost use Rattle.vesgrauf.specs.Messages.{IsMember, IsStreamHead};
ghost use Rattle.vesgrauf.specs.Works.{WorksOn};

use crate::connection::{Connection, Stop, internal};
use crate::entry::{Entry, Peer, SHARED, Told};
use crate::event::{Event, EventKind};
use crate::input::Report;
use crate::output::StreamKind;
use crate::refused::Refused;
use std::alloc::{AllocError, Global};
use vesgrauf_queue::config::QueueConfig;
use vesgrauf_stream::reading::Reading;
use vesgrauf_stream::writing::Writing;
use wtp_connection::connection::Known;
use wtp_frames::endpoint::Side;
use wtp_webtransport::event::Event as Said;
use wtp_webtransport::fault::Fault;
use wtp_webtransport::stream::Stream;

/// What became of a stream that is to join its session.
#[derive(Clone, Copy)]
pub(super) enum Joining {
    /// It joined this session.
    Joined(u64),
    /// It is to be closed.
    Refused(Fault),
    /// The connection is over.
    Broken(Fault),
    /// Nothing yet.
    Nothing,
}

// Returns what an event says of a stream that is to join its session.
pub(super) fn joining_of(event: &Said<'_>) -> Joining {
    match event {
        Said::Joined(session) => Joining::Joined(*session),
        Said::StreamError(fault) => Joining::Refused(*fault),
        Said::ConnectionError(fault) => Joining::Broken(*fault),
        _ => Joining::Nothing,
    }
}

#[tactic(auto, using(crate::proofs::KeepsLemmas::keep))]
impl Connection {
    // Registers the streams of the peer up to that of a report.
    #[tactic(auto, using(crate::proofs::ActLemmas::act, crate::proofs::KeepsOwnLemmas::hold))]
    pub(super) fn accept_for(&mut self, report: Report) -> Result<(), Stop>
        ensures keeps { KeepsOwn [] self.old self.new }
        ensures works { OnOk result (WorksOn self.old self.new) }
        ensures accepts { Accepts self.old.ids self.old.streams.entries self.new.ids self.new.streams.entries }
    {
        match report {
            Report::Stream(id) | Report::Reset(id, _) | Report::Stopped(id, _) => self.accept(id),
            _ => Ok(()),
        }
    }

    // Registers the streams of the peer up to this one. An ID that cannot be is an error of QUIC.
    #[tactic(auto, using(crate::proofs::ActLemmas::act, crate::proofs::KeepsOwnLemmas::holds_refl, crate::proofs::KeepsOwnLemmas::holds_trans, crate::proofs::TellsLemmas::accepts_steps))]
    fn accept(&mut self, id: u64) -> Result<(), Stop>
        ensures keeps { KeepsOwn [] self.old self.new }
        ensures works { OnOk result (WorksOn self.old self.new) }
        ensures accepts { Accepts self.old.ids self.old.streams.entries self.new.ids self.new.streams.entries }
    {
        if self.ids.is_own(id) {
            return if self.ids.was_taken(id) {
                Ok(())
            } else {
                Err(internal())
            };
        }
        let next = self.ids.next_of_peer(id);
        if id < next {
            return Ok(());
        }
        let count = (id - next) / 4;
        if id >= 1 << 62 || count >= self.config.max_streams {
            return Err(internal());
        }
        for _stream in 0..count + 1 {
            self.accept_next(id)?;
        }
        Ok(())
    }

    // Registers the next stream of the peer, of the kind of this one.
    #[tactic(auto, using(crate::proofs::ActLemmas::act, crate::proofs::TellsLemmas::accepts_insert, crate::proofs::KeepsOwnLemmas::holds_refl, crate::proofs::PlaceLemmas::ordered_new_quiet, crate::proofs::JoinedLemmas::joined_new, crate::proofs::JoinedLemmas::joined_seen))]
    fn accept_next(&mut self, id: u64) -> Result<(), Stop>
        ensures keeps { KeepsOwn [] self.old self.new }
        ensures works { OnOk result (WorksOn self.old self.new) }
        ensures accepts { Accepts self.old.ids self.old.streams.entries self.new.ids self.new.streams.entries }
    {
        let next = self.ids.next_of_peer(id);
        if next >= 1 << 62 {
            return Err(internal());
        }
        if self.ids.was(next) {
            return Err(internal());
        }
        if self.has_stream(next) {
            return Err(internal());
        }
        let entry = self.entry_of_peer(next);
        self.streams.insert(next, entry)?;
        self.ids.see_next(StreamKind::of(id));
        Ok(())
    }

    // Returns the entry of a stream of the peer, of which nothing came.
    fn entry_of_peer(&mut self, id: u64) -> Entry
        ensures blank { (own_of result.writing ≡ Over) ⊎ (own_of result.writing ≡ Sends 0 [] (OpenEnd false)) }
        ensures nothing { IsBlank id (theirs_of result) }
        ensures alone { result.session ≡ None }
        ensures idle { has_more result.writing.queue ≡ false }
        ensures config { self.new.config ≡ self.old.config }
        ensures ids { self.new.ids ≡ self.old.ids }
        ensures streams { self.new.streams ≡ self.old.streams }
        ensures events { self.new.events ≡ self.old.events }
        ensures ended { self.new.ended ≡ self.old.ended }
        ensures table { table_of self.new ≡ table_of self.old }
    {
        let stream = self.shared.accept(id);
        let writing = half_beside_peer(self.alloc, self.config.queue(), id);
        let mut entry = Entry::new(Reading::new(self.alloc, stream), Peer::Reads, writing);
        entry.may_cancel = id % 4 == 0;
        entry
    }

    // Joins a stream with its session, by what is known of that: it is noted as one of the session, if that is open.
    pub(super) fn join(&mut self, id: u64, session: u64) -> Result<Said<'static>, Stop>
        ensures keeps { Keeps [] self.old self.new }
        ensures noted { known_in self.old session ≡ knowns.Open → OnOk result (is_member self.new.ids session id ≡ true) }
        ensures silent { IfOk result (λ e. items_of (told_of e) ≡ []) }
    {
        let known = self.known_to(id, session);
        self.note_member(id, session, known)?;
        Ok(self.join_known(id, known))
    }

    // Notes a stream as one of its session, if that is open.
    #[tactic(auto, using(crate::proofs::KeepsLemmas::keep, crate::proofs::MemberLemmas::notes_itself, crate::proofs::JoinedLemmas::joined_noted))]
    fn note_member(&mut self, id: u64, session: u64, known: Known) -> Result<(), AllocError>
        ensures keeps { Keeps [] self.old self.new }
        ensures noted { known ≡ knowns.Open → OnOk result (is_member self.new.ids session id ≡ true) }
    {
        if matches!(known, Known::Open) {
            self.ids.note(session, id)?;
        }
        Ok(())
    }

    // Joins a stream with its session, of which this is known.
    #[tactic(auto, using(crate::proofs::KeepsLemmas::keep, crate::proofs::KeepsLemmas::keeps_turned, crate::proofs::TellsLemmas::joins_silent, crate::proofs::PlaceLemmas::ordered, crate::proofs::JoinedLemmas::joined))]
    fn join_known(&mut self, id: u64, known: Known) -> Said<'static>
        ensures keeps { Keeps [] self.old self.new }
        ensures ids { self.new.ids ≡ self.old.ids }
        ensures silent { items_of (told_of result) ≡ [] }
    {
        self.forget_named(id);
        let Some(entry) = self.streams.get_mut(&id) else {
            return Said::More;
        };
        entry.reading.join_session(&mut self.shared, known)
    }

    // A stream that named its session is not to join it any more.
    fn forget_named(&mut self, id: u64)
        ensures still { IsStill self.old self.new }
        ensures others { self.new ≡ record self.old { pending = self.new.pending } }
    {
        if let Some(named) = self.pending.named {
            if named.id == id {
                self.pending.named = None;
            }
        }
    }

    // A stream of the peer joined its session, which counts, as one of which it was noted before.
    pub(super) fn joined(&mut self, id: u64, session: u64) -> Result<(), Stop>
        ensures keeps { Keeps [] self.old self.new }
    {
        if !self.ids.is_member(session, id) {
            return Err(internal());
        }
        if !self.has_session(session) {
            return Err(internal());
        }
        self.note_joined(id, session);
        self.share(id);
        Ok(())
    }

    // A stream is one of a session now that counts, as one of which it was noted.
    #[tactic(auto, using(crate::proofs::MemberLemmas::keeps_joined, crate::proofs::KeepsLemmas::keeps_refl, crate::proofs::OwnLemmas::own_raw, crate::proofs::PlaceLemmas::ordered, crate::proofs::JoinedLemmas::joined, crate::proofs::PlaceLemmas::ordered_quiet, crate::proofs::JoinedLemmas::joined_joins))]
    fn note_joined(&mut self, id: u64, session: u64)
        requires noted { is_member self.old.ids session id ≡ true }
        requires counts { holds_in (stream_at self.old session) ≡ true }
        ensures keeps { is_member self.old.ids session id ≡ true → Keeps [] self.old self.new }
    {
        if let Some(entry) = self.streams.get_mut(&id) {
            entry.session = Some(session);
            entry.may_cancel = false;
            entry.know();
            entry.writing.belong();
        }
    }

    // A stream shares the bandwidth with others, unless something was said on it: then it has its place in the order of sending.
    #[tactic(auto, using(crate::proofs::KeepsLemmas::keep, crate::proofs::PlaceLemmas::ordered_quiet, crate::proofs::PlaceLemmas::ordered, crate::proofs::JoinedLemmas::joined))]
    pub(super) fn share(&mut self, id: u64)
        ensures keeps { Keeps [] self.old self.new }
    {
        let Some(entry) = self.streams.get_mut(&id) else {
            return;
        };
        if entry.has_more() {
            return;
        }
        entry.priority = SHARED;
    }

    /// Opens a stream of an open session. Returns its ID. Its first bytes, which name the session, are queued
    /// (draft-ietf-webtrans-http3-02, section 4).
    ///
    /// # Errors
    ///
    /// Nothing changes. `Closed`; `SessionGone`; `NotOpen`; `Full` if as many own streams of this
    /// kind wait for QUIC as [`max_unopened`](crate::config::Config) says: an event
    /// [`Openable`](crate::event::EventKind) follows; `NoMoreIds`; and `Memory`.
    #[tactic(auto, using(crate::proofs::KeepsLemmas::kept, crate::proofs::IdLemmas::goes_opens, crate::proofs::IdLemmas::knows_here, crate::proofs::GoesLemmas::goes_still, crate::proofs::IdLemmas::keeps_still, crate::proofs::JoinedLemmas::joined_taken))]
    pub fn open_stream(&mut self, session: u64, kind: StreamKind) -> Result<u64, Refused>
        ensures refused { IfErr result (λ e. IsRefused e self.old self.new) }
        ensures id { IfOk result (λ id. id ≡ next_own self.old.ids kind) }
        ensures room { IfOk result (λ id. may_wait self.old kind ≡ true) }
        ensures open { OnOk result (open_session self.old session ≡ Ok tt) }
        ensures own { IfOk result (λ id. UntouchedBut id self.old.streams.entries self.new.streams.entries) }
        ensures alone { IfOk result (λ id. AreOthers id self.old.streams.entries self.new.streams.entries) }
        ensures goes { IfOk result (λ id. GoesOn [] self.old self.new × (knows self.new id ≡ true)) }
        ensures lasts { IfOk result (λ id. LastsOn [] self.old self.new) }
        ensures kept { OnErr result (Keeps [] self.old self.new) }
        ensures begins { IfOk result (λ id. (head : List ℕ) × Of (stream_at self.old session) (IsStreamHead kind head)
            × Of (stream_at self.new id) (IsMember self.old.config session kind head)) }
        ensures others { IfOk result (λ id. view_of self.new ≡ record (view_of self.old) {
          streams = self.new.streams.entries;
          ids = record (taken self.old.ids kind) { members = self.new.ids.members };
        }) }
        ensures member { IfOk result (λ id. (s k : ℕ)
            → is_member self.new.ids s k ≡ (is_same_stream session id s k || is_member self.old.ids s k)) }
    {
        self.check_session(session)?;
        self.check_room(kind)?;
        let Some(id) = self.ids.next(kind) else {
            return Err(Refused::NoMoreIds);
        };
        if self.has_stream(id) {
            return Err(Refused::NoMoreIds);
        }
        let head = self.stream_head(session, kind)?;
        let entry = self.new_member(session, kind, head.as_slice())?;
        self.add_member(session, id, entry)?;
        self.ids.take(kind);
        Ok(id)
    }

    // Returns the first bytes of a stream of a session.
    fn stream_head(&self, session: u64, kind: StreamKind) -> Result<Vec<u8>, Refused>
        ensures { IfOk result (λ head. Of (stream_at self.now session) (IsStreamHead kind head.items)) }
    {
        let Some(entry) = self.streams.get(&session) else {
            return Err(Refused::NoStream);
        };
        let both = kind == StreamKind::Bidirectional;
        let mut head = Vec::new(self.alloc);
        entry.writing.stream_head(both, &mut head)?;
        Ok(head)
    }

    // Returns the entry of an own stream of a session, on which these bytes are queued.
    fn new_member(&mut self, session: u64, kind: StreamKind, head: &[u8]) -> Result<Entry, Refused>
        ensures entry { IfOk result (IsMember self.old.config session kind head.now) }
        ensures others { self.new ≡ record self.old { tools = self.new.tools } }
    {
        let mut writing = Writing::raw(self.alloc, self.config.queue());
        writing.push(&mut self.tools.spares, head)?;
        let peer = match kind {
            StreamKind::Bidirectional => Peer::Reads,
            StreamKind::Unidirectional => Peer::Over,
        };
        let stream = Stream::of_session(session);
        let mut entry = Entry::new(Reading::new(self.alloc, stream), peer, writing);
        entry.session = Some(session);
        entry.priority = SHARED;
        entry.told = Told::Known;
        entry.is_opened = false;
        Ok(entry)
    }

    // Refuses one more own stream of a kind while as many wait for QUIC as may: an `Openable` is owed then.
    pub(super) fn check_room(&mut self, kind: StreamKind) -> Result<(), Refused>
        ensures room { result ≡ room_for self.old kind }
        ensures still { IsStill self.old self.new }
        ensures tools { self.new.tools ≡ self.old.tools }
    {
        if self.has_place(kind) {
            return Ok(());
        }
        self.owe_openable(kind, true);
        Err(Refused::Full)
    }

    // Returns whether fewer own streams of a kind wait for QUIC than may.
    fn has_place(&self, kind: StreamKind) -> bool
        ensures { result ≡ may_wait self.now kind }
    {
        self.ids.count_unopened(kind) < self.config.max_unopened.max(1)
    }

    // Tells that there is room again for own streams of a kind, if that is owed.
    #[tactic(auto, using(crate::proofs::KeepsLemmas::keep, crate::proofs::GoesLemmas::goes_general))]
    pub(super) fn tell_openable(&mut self, kind: StreamKind) -> Result<(), AllocError>
        ensures keeps { Keeps [] self.old self.new }
        ensures others { view_of self.new ≡ record (view_of self.old) { events = self.new.events.items } }
    {
        let is_owed = match kind {
            StreamKind::Bidirectional => self.pending.owes_bidirectional,
            StreamKind::Unidirectional => self.pending.owes_unidirectional,
        };
        if is_owed && self.ended.is_none() && self.has_place(kind) {
            self.events
                .push_back(Event::of_connection(EventKind::Openable(kind)))?;
            self.owe_openable(kind, false);
        }
        Ok(())
    }

    // Notes whether an `Openable` is owed.
    fn owe_openable(&mut self, kind: StreamKind, is_owed: bool)
        ensures still { IsStill self.old self.new }
        ensures others { self.new ≡ record self.old { pending = self.new.pending } }
    {
        match kind {
            StreamKind::Bidirectional => self.pending.owes_bidirectional = is_owed,
            StreamKind::Unidirectional => self.pending.owes_unidirectional = is_owed,
        }
    }

    // Adds an own stream of a session that counts.
    #[tactic(auto, using(crate::proofs::KeepsLemmas::kept, crate::proofs::PlaceLemmas::ordered_new_closed, crate::proofs::JoinedLemmas::joined_noted, crate::proofs::JoinedLemmas::joined_member, crate::proofs::JoinedLemmas::joined_dropped))]
    fn add_member(&mut self, session: u64, id: u64, entry: Entry) -> Result<(), AllocError>
        requires closed { entry.is_opened ≡ false }
        requires joins { entry.session ≡ Some session }
        requires absent { stream_at self.old id ≡ None }
        requires counts { holds_in (stream_at self.old session) ≡ true }
        ensures own { OnOk result (UntouchedBut id self.old.streams.entries self.new.streams.entries) }
        ensures here { OnOk result (entry_at self.new.streams.entries id ≡ Some entry) }
        ensures others { OnOk result (AreOthers id self.old.streams.entries self.new.streams.entries) }
        ensures same { OnErr result (self.new.streams.entries ≡ self.old.streams.entries) }
        ensures view { view_of self.new ≡ record (view_of self.old) {
          streams = self.new.streams.entries;
          ids = self.new.ids;
        } }
        ensures events { self.new.events ≡ self.old.events }
        ensures noted { OnOk result (Notes session id self.old.ids self.new.ids) }
        ensures kept { OnErr result (Keeps [] self.old self.new) }
    {
        self.ids.note(session, id)?;
        match self.streams.insert(id, entry) {
            Ok(_) => {}
            Err(_) => {
                self.ids.forget(session, id);
                return Err(AllocError);
            }
        }
        Ok(())
    }

    // Checks that a session is open.
    #[tactic(auto, using(crate::proofs::JoinedLemmas::open_holds))]
    pub(super) fn check_session(&self, session: u64) -> Result<(), Refused>
        ensures open { result ≡ open_session self.now session }
        ensures holds { OnOk result (holds_in (stream_at self.now session) ≡ true) }
    {
        if self.ended.is_some() {
            return Err(Refused::Closed);
        }
        match self.known(session) {
            Known::Open => Ok(()),
            Known::Over | Known::Refused => Err(Refused::SessionGone),
            _ => Err(Refused::NotOpen),
        }
    }

    // Returns whether this is a server.
    pub(super) fn is_server(&self) -> bool
        ensures { MatchBool result (self.now.config.side ≡ side.Server) (self.now.config.side ≡ side.Client) }
    {
        self.config.side == Side::Server
    }
}

// Returns the own half of a stream of the peer, on which nothing was said: none of a unidirectional one.
#[tactic(auto, using(crate::proofs::QueuedLemmas::more_new))]
fn half_beside_peer(alloc: Global, queue: QueueConfig, id: u64) -> Writing
    ensures blank { (own_of result ≡ Over) ⊎ (own_of result ≡ Sends 0 [] (OpenEnd false)) }
    ensures idle { has_more result.queue ≡ false }
{
    if id % 4 < 2 {
        Writing::idle(alloc, queue)
    } else {
        Writing::none(alloc, queue)
    }
}
