//! What is heard on a stream, and what follows from it.
ghost use Rattle.std.specs.Prelude.{◌≡◌, [], ◌∷◌, false, IfOk, OnOk};
ghost use Rattle.vesgrauf.specs.Keeps.{Keeps, KeepsOwn};
ghost use Rattle.vesgrauf.specs.Told.{ends, word_of, said_by, said_in};
ghost use Rattle.vesgrauf.specs.State.{stream_at, told_on};
ghost use Rattle.vesgrauf.specs.Items.{Section, has_end, items_in, items_of, items_told};
ghost use Rattle.wtp_webtransport.specs.declared.event.HeadersKind.TheVariants as headers;
ghost use Rattle.vesgrauf.specs.Theirs.{Left, Hands, IsSilent, IsOf, told_in};
ghost use Rattle.wtp_webtransport.specs.Events.{told_of};
ghost use Rattle.vesgrauf.specs.Works.{WorksOn};

use crate::connection::failing::NO_DATAGRAMS;
use crate::connection::opening::{Joining, joining_of};
use crate::connection::{Connection, Step, Stop, internal};
use crate::entry::Member;
use crate::event::{Event, EventKind, Tunnel, Why};
use crate::output::StreamKind;
use std::alloc::AllocError;
use vesgrauf_stream::bytes::Bytes;
use vesgrauf_stream::heard::Heard;
use wtp_connection::settings::PeerSettings;
use wtp_connection::stream::Purpose;
use wtp_core::error::Code;
use wtp_fields::fields::FieldList;
use wtp_messages::response::Asked;
use wtp_webtransport::close::Close;
use wtp_webtransport::event::{Event as Said, HeadersKind};

// Returns whether what a stream says is told item by item: content, sections, and the end.
pub(super) fn says_items(event: &Said<'_>) -> bool
    ensures { result ≡ false → items_of (told_of event.now) ≡ [] }
{
    matches!(
        event,
        Said::Data(_)
            | Said::StreamData(_)
            | Said::Headers(_, _)
            | Said::SessionRequested(_)
            | Said::SessionReady(_, _)
            | Said::Rejected(_, _)
            | Said::Draining
            | Said::End
    )
}

#[tactic(auto, using(crate::proofs::KeepsLemmas::keep))]
impl Connection {
    // Handles what was heard on a stream.
    #[tactic(auto, using(crate::proofs::ActLemmas::act, crate::proofs::KeepsOwnLemmas::hold, crate::proofs::TellsLemmas::left_hands, crate::proofs::PieceLemmas::content_goes_on))]
    pub(super) fn heard<'a>(&mut self, id: u64, heard: Heard<'a>) -> Result<Step<'a>, Stop>
        ensures keeps { KeepsOwn (said_by result) self.old self.new }
        ensures works { OnOk result (WorksOn self.old self.new) }
        ensures left { Left self.old.streams.entries self.new.streams.entries }
        ensures hands { IfOk result (λ s. Hands id (items_in heard.entry) (told_in s)
            self.old.streams.entries self.new.streams.entries) }
    {
        match heard {
            Heard::Data(bytes) => self.tell_read(id, EventKind::Data(bytes)),
            Heard::StreamData(bytes) => self.tell_read(id, EventKind::Data(bytes)),
            Heard::Frame(_, _) => Ok(Step::More),
            Heard::Event(event) => self.said(id, event),
        }
    }

    // Tells what was read of a stream. One that the program does not know of is read no further.
    #[tactic(auto, using(crate::proofs::KeepsLemmas::keep, crate::proofs::TellsLemmas::told_hands, crate::proofs::TellsLemmas::gone_hands))]
    pub(super) fn tell_read<'a>(&mut self, id: u64, kind: EventKind<'a>) -> Result<Step<'a>, Stop>
        ensures keeps { ends (word_of kind.entry) ≡ false → Keeps (said_by result) self.old self.new }
        ensures quiet { Keeps [] self.old self.new }
        ensures hands { has_end (items_told kind.entry) ≡ false
            → IfOk result (λ s. Hands id (items_told kind.entry) (told_in s)
            self.old.streams.entries self.new.streams.entries) }
    {
        match self.tell(id, kind) {
            Step::Told(event) => Ok(Step::Told(event)),
            _ => {
                self.drop_untold(id)?;
                Ok(Step::More)
            }
        }
    }

    // Tells the program something of a stream, if it knows of the stream.
    #[tactic(auto, using(crate::proofs::KeepsLemmas::keep, crate::proofs::GoesLemmas::goes_tells))]
    pub(super) fn tell<'a>(&self, id: u64, kind: EventKind<'a>) -> Step<'a>
        ensures told { result ≡ told_on (stream_at self.now id) id kind.entry }
        ensures is { IsOf id (items_told kind.entry) result }
        ensures keeps { ends (word_of kind.entry) ≡ false → Keeps (said_in result) self.now self.now }
    {
        let Some(entry) = self.streams.get(&id) else {
            return Step::More;
        };
        if !entry.is_known() {
            return Step::More;
        }
        Step::Told(Event {
            stream: id,
            session: entry.session_shown(id),
            user: entry.user,
            kind,
        })
    }

    // Handles what a stream says.
    #[tactic(auto, using(crate::proofs::ActLemmas::act, crate::proofs::KeepsOwnLemmas::hold))]
    pub(super) fn said(&mut self, id: u64, event: Said<'static>) -> Result<Step<'static>, Stop>
        ensures keeps { KeepsOwn (said_by result) self.old self.new }
        ensures works { OnOk result (WorksOn self.old self.new) }
        ensures left { Left self.old.streams.entries self.new.streams.entries }
        ensures hands { IfOk result (λ s. Hands id (items_of (told_of event.entry)) (told_in s)
            self.old.streams.entries self.new.streams.entries) }
    {
        if says_items(&event) {
            return self.item_said(id, event);
        }
        self.said_else(id, event)
    }

    // Handles what a stream says that is told item by item. (Content is heard as such, and not as what a stream says.)
    fn item_said(&mut self, id: u64, event: Said<'static>) -> Result<Step<'static>, Stop>
        ensures keeps { Keeps (said_by result) self.old self.new }
        ensures hands { IfOk result (λ s. Hands id (items_of (told_of event.entry)) (told_in s)
            self.old.streams.entries self.new.streams.entries) }
    {
        match event {
            Said::Headers(kind, list) => self.headers_came(id, kind, list),
            Said::SessionRequested(list) => self.session_came(id, list),
            Said::SessionReady(status, list) => self.session_ready(id, status, list),
            Said::Rejected(status, list) => self.session_rejected(id, status, list),
            Said::Draining => self.tell_read(id, EventKind::Draining),
            Said::End => self.end_came(id),
            _ => Err(internal()),
        }
    }

    // Handles what else a stream says.
    #[tactic(auto, using(crate::proofs::ActLemmas::act, crate::proofs::KeepsOwnLemmas::hold))]
    fn said_else(&mut self, id: u64, event: Said<'static>) -> Result<Step<'static>, Stop>
        ensures keeps { KeepsOwn (said_by result) self.old self.new }
        ensures works { OnOk result (WorksOn self.old self.new) }
        ensures left { Left self.old.streams.entries self.new.streams.entries }
        ensures silent { IfOk result IsSilent }
    {
        match event {
            Said::Settings(settings, _) => self.settings_came(settings),
            Said::GoAway(first) => Ok(self.goaway_came(first)),
            Said::Inserted(_) => {
                self.wake();
                Ok(Step::More)
            }
            Said::Opened(purpose) => self.purpose_came(id, purpose),
            Said::Joins(session) => self.session_named(id, session),
            Said::SessionClosed(close) => self.session_closed(id, close),
            Said::SessionLost => self.session_lost(id),
            Said::Datagram(payload) => Ok(self.capsule_came(id, payload)),
            Said::TooLarge(_) => self.too_large_came(id),
            Said::Malformed(rule) => self.malformed_came(id, rule),
            Said::StreamError(fault) | Said::Reset(Some(fault)) => {
                self.shut(id, fault.code(), Why::Fault(fault))?;
                Ok(Step::More)
            }
            Said::ConnectionError(fault) => Err(Stop::from(fault)),
            Said::NoMemory => Err(Stop::Memory),
            event => self.join_came(id, joining_of(&event)),
        }
    }

    // A stream names its session.
    fn session_named(&mut self, id: u64, session: u64) -> Result<Step<'static>, Stop>
        ensures keeps { Keeps (said_by result) self.old self.new }
        ensures silent { IfOk result IsSilent }
    {
        self.note_since(id);
        // (without memory it joins when it is read again)
        self.pending.named = Some(Member { session, id });
        let event = self.join(id, session)?;
        self.join_came(id, joining_of(&event))
    }

    // A stream names its session at this tick.
    #[tactic(auto, using(crate::proofs::KeepsLemmas::keep, crate::proofs::PlaceLemmas::ordered, crate::proofs::JoinedLemmas::joined))]
    fn note_since(&mut self, id: u64)
        ensures keeps { Keeps [] self.old self.new }
    {
        if let Some(entry) = self.streams.get_mut(&id) {
            entry.since = self.ticks;
        }
    }

    // Handles what became of a stream that is to join its session.
    fn join_came(&mut self, id: u64, joining: Joining) -> Result<Step<'static>, Stop>
        ensures keeps { Keeps (said_by result) self.old self.new }
        ensures silent { IfOk result IsSilent }
    {
        match joining {
            Joining::Joined(session) => {
                self.joined(id, session)?;
                self.tell_stop(id)?;
                Ok(self.tell(id, EventKind::NewStream(StreamKind::of(id))))
            }
            Joining::Refused(fault) => {
                self.shut(id, fault.code(), Why::Fault(fault))?;
                Ok(Step::More)
            }
            Joining::Broken(fault) => Err(Stop::from(fault)),
            Joining::Nothing => Ok(Step::More),
        }
    }

    // A datagram of a session came in a capsule.
    fn capsule_came(&self, id: u64, payload: Vec<u8>) -> Step<'static>
        ensures silent { IsSilent result }
        ensures keeps { Keeps (said_in result) self.now self.now }
    {
        self.tell(id, EventKind::Datagram(Bytes::Kept(payload)))
    }

    // SETTINGS of the peer came.
    #[tactic(auto, using(crate::proofs::KeepsLemmas::keep, crate::proofs::GoesLemmas::goes_aside))]
    fn settings_came(&mut self, settings: PeerSettings) -> Result<Step<'static>, Stop>
        ensures keeps { Keeps (said_by result) self.old self.new }
        ensures silent { IfOk result IsSilent }
    {
        if settings.h3_datagram && self.datagrams.limit == 0 {
            return Err(Stop::from(NO_DATAGRAMS));
        }
        self.is_configured = true;
        self.pending.begins_table = true;
        self.wake();
        Ok(Step::Told(Event::of_connection(EventKind::Ready(settings))))
    }

    // GOAWAY of the peer came.
    #[tactic(auto, using(crate::proofs::KeepsLemmas::keep, crate::proofs::GoesLemmas::goes_aside))]
    fn goaway_came(&mut self, first: u64) -> Step<'static>
        ensures keeps { Keeps (said_in result) self.old self.new }
        ensures silent { IsSilent result }
    {
        if !self.is_server() {
            self.pending.unprocessed = Some(first);
        }
        Step::Told(Event::of_connection(EventKind::GoAway(first)))
    }

    // The stream is for this.
    fn purpose_came(&mut self, id: u64, purpose: Purpose) -> Result<Step<'static>, Stop>
        ensures keeps { Keeps (said_by result) self.old self.new }
        ensures silent { IfOk result IsSilent }
    {
        match purpose {
            Purpose::Message => {
                let goaway = self.first_rejected();
                self.reject(id, goaway)?;
            }
            Purpose::Decoder => {
                self.note_decoder(id);
                self.note_quiet(id);
            }
            _ => self.note_quiet(id),
        }
        Ok(Step::More)
    }

    // The bytes of the stream are instructions for the own encoder.
    #[tactic(auto, using(crate::proofs::KeepsLemmas::keep, crate::proofs::PlaceLemmas::ordered, crate::proofs::JoinedLemmas::joined, crate::proofs::SeveredLemmas::stays_decoder))]
    fn note_decoder(&mut self, id: u64)
        ensures keeps { Keeps [] self.old self.new }
    {
        if let Some(entry) = self.streams.get_mut(&id) {
            if !entry.is_known() {
                entry.is_decoder = true;
            }
        }
    }

    // The stream is one that is open as long as the connection, or ignored.
    #[tactic(auto, using(crate::proofs::KeepsLemmas::keep, crate::proofs::PlaceLemmas::ordered, crate::proofs::JoinedLemmas::joined))]
    fn note_quiet(&mut self, id: u64)
        ensures keeps { Keeps [] self.old self.new }
    {
        if let Some(entry) = self.streams.get_mut(&id) {
            if !entry.is_quiet {
                entry.is_quiet = true;
                self.quiet = self.quiet.saturating_add(1);
            }
        }
    }

    // Returns the ID of the own GOAWAY, from which on requests are rejected.
    fn first_rejected(&self) -> Option<u64> {
        match self.goaways.last_goaway() {
            Some(first) => Some(first.into_inner()),
            None => None,
        }
    }

    // Rejects the request on a stream if its ID is this one or above it: that of the own GOAWAY, or its own where there are
    // too many sessions.
    pub(super) fn reject(&mut self, id: u64, first: Option<u64>) -> Result<(), AllocError>
        ensures keeps { Keeps [] self.old self.new }
    {
        let Joining::Refused(fault) = self.reject_half(id, first) else {
            return Ok(());
        };
        self.shut(id, fault.code(), Why::Fault(fault))
    }

    // Rejects a request, if its ID says so.
    #[tactic(auto, using(crate::proofs::KeepsLemmas::keep, crate::proofs::KeepsLemmas::keeps_turned, crate::proofs::PlaceLemmas::ordered, crate::proofs::JoinedLemmas::joined))]
    fn reject_half(&mut self, id: u64, first: Option<u64>) -> Joining
        ensures keeps { Keeps [] self.old self.new }
    {
        let Some(entry) = self.streams.get_mut(&id) else {
            return Joining::Nothing;
        };
        joining_of(&entry.reading.reject(&mut self.shared, id, first))
    }

    // A field section of a message came.
    fn headers_came(
        &mut self,
        id: u64,
        kind: HeadersKind,
        list: FieldList,
    ) -> Result<Step<'static>, Stop>
        ensures keeps { Keeps (said_by result) self.old self.new }
        ensures hands { IfOk result (λ s. Hands id (Section kind list ∷ []) (told_in s)
            self.old.streams.entries self.new.streams.entries) }
    {
        match kind {
            HeadersKind::Request => self.request_came(id, list),
            HeadersKind::Interim(status) => self.tell_read(id, EventKind::Interim(status, list)),
            HeadersKind::Response(status) => self.response_came(id, status, list),
            HeadersKind::Trailers => self.tell_read(id, EventKind::Trailers(list)),
        }
    }

    // A request came that asks for no session.
    #[tactic(auto, using(crate::proofs::KeepsLemmas::keep, crate::proofs::KeepsLemmas::keeps_left, crate::proofs::TellsLemmas::hands_left))]
    fn request_came(&mut self, id: u64, list: FieldList) -> Result<Step<'static>, Stop>
        ensures keeps { Keeps (said_by result) self.old self.new }
        ensures hands { IfOk result (λ s. Hands id (Section headers.Request list ∷ []) (told_in s)
            self.old.streams.entries self.new.streams.entries) }
    {
        let step = self.tell_request(id, list)?;
        self.tell_stop(id)?;
        Ok(step)
    }

    // Tells of a request that asks for no session.
    #[tactic(auto, using(crate::proofs::KeepsLemmas::keep, crate::proofs::KeepsLemmas::keeps_left, crate::proofs::TellsLemmas::left_then_hands))]
    fn tell_request(&mut self, id: u64, list: FieldList) -> Result<Step<'static>, Stop>
        ensures keeps { Keeps (said_by result) self.old self.new }
        ensures quiet { Keeps [] self.old self.new }
        ensures hands { IfOk result (λ s. Hands id (Section headers.Request list ∷ []) (told_in s)
            self.old.streams.entries self.new.streams.entries) }
    {
        self.begin_request(id, &list);
        if list.first(b":method") == Some(b"CONNECT") {
            self.tell_read(id, EventKind::Connect(Tunnel::Other, list))
        } else {
            self.tell_read(id, EventKind::Request(list))
        }
    }

    // The request on a stream asks for no session.
    fn begin_request(&mut self, id: u64, list: &FieldList)
        ensures keeps { Keeps [] self.old self.new }
    {
        let asked = if list.first(b":method") == Some(b"CONNECT") {
            Asked::Connect
        } else if list.first(b":method") == Some(b"HEAD") {
            Asked::Head
        } else {
            Asked::Other
        };
        self.note_request(id, asked);
        // (a stream may have waited for the session with this ID, which there is not)
        self.wake_waiting();
    }

    // A request came that asks for this.
    #[tactic(auto, using(crate::proofs::KeepsLemmas::keep, crate::proofs::KeepsLemmas::keeps_known, crate::proofs::OwnLemmas::own_asked, crate::proofs::PlaceLemmas::ordered, crate::proofs::JoinedLemmas::joined, crate::proofs::SeveredLemmas::stays_known, crate::proofs::SeveredLemmas::out_asked))]
    pub(super) fn note_request(&mut self, id: u64, asked: Asked)
        ensures keeps { Keeps [] self.old self.new }
    {
        if let Some(entry) = self.streams.get_mut(&id) {
            entry.writing.ask(asked);
            entry.has_tunnel = asked == Asked::Connect;
            entry.know();
            entry.is_awaited = true;
        }
    }

    // The final response to a request that asked for no session came.
    #[tactic(auto, using(crate::proofs::KeepsLemmas::keep, crate::proofs::KeepsLemmas::keeps_left, crate::proofs::TellsLemmas::left_then_hands))]
    fn response_came(
        &mut self,
        id: u64,
        status: u32,
        list: FieldList,
    ) -> Result<Step<'static>, Stop>
        ensures keeps { Keeps (said_by result) self.old self.new }
        ensures hands { IfOk result (λ s. Hands id (Section (headers.Response status) list ∷ []) (told_in s)
            self.old.streams.entries self.new.streams.entries) }
    {
        self.note_response(id, status);
        self.tell_read(id, EventKind::Response(status, list))
    }

    // The final response to a request came, with this status.
    fn note_response(&mut self, id: u64, status: u32)
        ensures keeps { Keeps [] self.old self.new }
    {
        if status > 199 && status < 300 {
            self.connect(id);
            return;
        }
        if self.has_tunnel(id) {
            self.end_own(id);
        }
    }

    // A request to a tunnel was granted.
    #[tactic(auto, using(crate::proofs::KeepsLemmas::keep, crate::proofs::OwnLemmas::own_connected, crate::proofs::PlaceLemmas::ordered, crate::proofs::JoinedLemmas::joined, crate::proofs::SeveredLemmas::stays_half, crate::proofs::SeveredLemmas::out_connected))]
    pub(super) fn connect(&mut self, id: u64)
        ensures keeps { Keeps [] self.old self.new }
    {
        if let Some(entry) = self.streams.get_mut(&id) {
            entry.writing.connect();
        }
    }

    fn has_tunnel(&self, id: u64) -> bool {
        match self.streams.get(&id) {
            Some(entry) => entry.has_tunnel,
            None => false,
        }
    }

    // The peer closed a session, on its own stream. The stream is read to its end: more content is an error
    // (draft-ietf-webtrans-http3-02, section 5).
    fn session_closed(&mut self, id: u64, close: Close) -> Result<Step<'static>, Stop>
        ensures keeps { Keeps (said_by result) self.old self.new }
        ensures silent { IfOk result IsSilent }
    {
        self.end_session(id)?;
        self.closed(id, Why::Session(close))?;
        self.end_own(id);
        self.cancel_left(id);
        Ok(Step::More)
    }

    // A session ended otherwise.
    fn session_lost(&mut self, id: u64) -> Result<Step<'static>, Stop>
        ensures keeps { Keeps (said_by result) self.old self.new }
        ensures silent { IfOk result IsSilent }
    {
        self.shut(id, Code::H3_REQUEST_CANCELLED, Why::SessionGone)?;
        Ok(Step::More)
    }
}
