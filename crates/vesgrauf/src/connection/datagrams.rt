//! Datagrams (RFC 9297).
ghost use Rattle.std.specs.Prelude.{◌≡◌, ◌≤◌, ◌+◌, ◌++◌, is_some, true, [], Ok, Some, MatchOption, OnOk, IfOk, IfSome, OnErr, IfErr, List, ℕ, length, option_map};
ghost use Rattle.vesgrauf.specs.Halves.{LastsOn};
ghost use Rattle.vesgrauf.specs.Keeps.{Keeps};
ghost use Rattle.vesgrauf.specs.State.{head, open_session, view_of};
ghost use Rattle.vesgrauf.specs.Datagrams.{Adds, HeadOf, KeepsDatagrams, KeepsOthers, SendsDatagram};
ghost use Rattle.vesgrauf.specs.Order.{TakesFirst};
ghost use Rattle.vesgrauf.specs.Own.{Untouched};
ghost use Rattle.vesgrauf.specs.Told.{GoesOn, said_by, said_if};
ghost use Rattle.vesgrauf.specs.declared.refused.Refused.TheVariants as refused;
ghost use Rattle.vesgrauf.specs.Theirs.{Left, IsSilent, IsSilentIf};
ghost use Rattle.vesgrauf.specs.Works.{WorksOn};

use crate::connection::{Connection, DatagramQueue, Step, Stop};
use crate::event::{Event, EventKind, Why};
use crate::refused::Refused;
use std::alloc::{AllocError, Global};
use std::mem;
use vesgrauf_stream::bytes::Bytes;
use vesgrauf_stream::early::EarlyDatagrams;
use wtp_connection::connection::Known;
use wtp_connection::connection::datagrams::DatagramFor;
use wtp_connection::fault::Fault as StreamsFault;
use wtp_core::error::Code;
use wtp_core::varint::first_varint;
use wtp_webtransport::fault::Fault;

/// How many datagrams are kept whose sessions are to come.
const MAX_EARLY: usize = 16;

impl DatagramQueue {
    // Queues a datagram: its first bytes, and the payload.
    fn add(&mut self, head: Vec<u8>, payload: &[u8]) -> Result<(), Refused>
        ensures ok { OnOk result (Adds (head.items ++ payload.now) self.old self.new) }
        ensures kept { OnErr result (self.new.queue.items ≡ self.old.queue.items) }
        ensures owed { self.new.is_owed ≡ self.old.is_owed }
    {
        let datagram = joined(head, payload)?;
        self.queue.push_back(datagram)?;
        Ok(())
    }

    // Keeps a datagram whose session is to come, unless as many are kept as may.
    fn keep_early(&mut self, session: u64, payload: &[u8]) -> Result<(), AllocError>
        ensures { self.new.queue ≡ self.old.queue }
    {
        if self.early.len() + self.aged.len() < MAX_EARLY {
            self.early.keep(session, payload)?;
        }
        Ok(())
    }

    // Takes the first of those of a session.
    fn take_early(&mut self, session: u64) -> Option<Vec<u8>>
        ensures { self.new.queue ≡ self.old.queue }
    {
        match self.aged.take(session) {
            Some(payload) => Some(payload),
            None => self.early.take(session),
        }
    }

    // Drops those that came before the last tick, unless some are to be given.
    pub(super) fn age(&mut self, alloc: Global)
        ensures others { self.new ≡ record self.old { early = self.new.early; aged = self.new.aged } }
        ensures aged { self.old.opened.items ≡ [] → (self.new.aged ≡ self.old.early) × (self.new.early ≡ []) }
        ensures kept { is_some (head self.old.opened.items) ≡ true → self.new ≡ self.old }
    {
        if self.opened.is_empty() {
            self.aged = mem::replace(&mut self.early, EarlyDatagrams::new(alloc));
        }
    }
}

#[tactic(auto, using(crate::proofs::KeepsLemmas::keep))]
impl Connection {
    // Takes in a datagram.
    pub(super) fn datagram_came<'a>(&mut self, bytes: &'a [u8]) -> Result<Step<'a>, Stop>
        ensures keeps { Keeps (said_by result) self.old self.new }
        ensures silent { IfOk result IsSilent }
    {
        let found = match self.payload_of(bytes) {
            Ok(found) => found,
            Err(fault) => return Err(Stop::from(fault)),
        };
        let Some((session, payload)) = found else {
            return Ok(Step::More);
        };
        match self.known(session).datagram_for() {
            DatagramFor::Deliver => {
                Ok(self.tell(session, EventKind::Datagram(Bytes::Input(payload))))
            }
            DatagramFor::Early => {
                self.datagrams.keep_early(session, payload)?;
                Ok(Step::More)
            }
            DatagramFor::Discard => Ok(Step::More),
            DatagramFor::EndStream => {
                let fault = Fault::Streams(StreamsFault::Datagram);
                self.shut(session, Code::H3_DATAGRAM_ERROR, Why::Fault(fault))?;
                Ok(Step::More)
            }
        }
    }

    // Returns the session of a datagram, and its payload, if it has one.
    #[tactic(auto, using(crate::proofs::KeepsLemmas::keep, crate::proofs::TableSteps::keeps_datagram))]
    fn payload_of<'a>(&mut self, bytes: &'a [u8]) -> Result<Option<(u64, &'a [u8])>, Fault>
        ensures keeps { Keeps [] self.old self.new }
    {
        self.shared.datagram(bytes)
    }

    // Takes a datagram that came before its session was open: it is dropped if the session is refused.
    pub(super) fn early_of<'a>(&mut self, session: u64) -> Option<Step<'a>>
        ensures keeps { Keeps (said_if result) self.old self.new }
        ensures silent { IsSilentIf result }
    {
        let payload = self.datagrams.take_early(session)?;
        if self.is_open(session) {
            Some(self.tell(session, EventKind::Datagram(Bytes::Kept(payload))))
        } else {
            Some(Step::More)
        }
    }

    // Returns whether a session is open.
    fn is_open(&self, session: u64) -> bool {
        matches!(self.known(session), Known::Open)
    }

    /// Sends a datagram of a session. Returns false if as many wait as
    /// [`datagram_queue`](crate::config::Config) says: then it is not queued, and an event
    /// [`DatagramsWritable`](crate::event::EventKind) follows when half of them are sent.
    ///
    /// # Errors
    ///
    /// Nothing changes. `Closed`; `SessionGone`; `NotOpen`; `TooLarge` if it has more bytes than
    /// [`max_datagram`](Self::max_datagram) says, or where that is `None` since QUIC's datagrams are too small; and `Memory`.
    #[tactic(auto, using(crate::proofs::ActLemmas::act, crate::proofs::ActLemmas::act_still, crate::proofs::ActLemmas::act_kept, crate::proofs::KeepsLemmas::kept, crate::proofs::LastsLemmas::lasts_refl))]
    pub fn send_datagram(&mut self, session: u64, payload: &[u8]) -> Result<bool, Refused>
        ensures open { IfOk result (λ queued. open_session self.old session ≡ Ok tt) }
        ensures ok { IfOk result (λ queued. SendsDatagram queued session payload.now self.old self.new) }
        ensures limit { IfOk result (λ queued. (first : List ℕ) × HeadOf self.old session first
            × (length first + length payload.now ≤ self.old.datagrams.limit)) }
        ensures others { KeepsOthers self.old self.new }
        ensures kept { OnErr result (KeepsDatagrams self.old self.new) }
        ensures goes { GoesOn [] self.old self.new }
        ensures lasts { LastsOn [] self.old self.new }
        ensures works { WorksOn self.old self.new }
    {
        self.check_session(session)?;
        let head = self.datagram_head(session)?;
        if head.len().saturating_add(payload.len()) > self.datagrams.limit {
            return Err(Refused::TooLarge);
        }
        if self.datagrams.queue.len() >= self.config.datagram_queue.max(1) {
            self.datagrams.is_owed = true;
            return Ok(false);
        }
        self.datagrams.add(head, payload)?;
        Ok(true)
    }

    /// Returns how many bytes the payload of a datagram of a session may have now, or `None` if it may have none: the session
    /// is not open, or QUIC's datagrams have no room for its first bytes. It is `None` too if memory is refused.
    pub fn max_datagram(&self, session: u64) -> Option<usize>
        ensures open { IfSome result (λ n. open_session self.now session ≡ Ok tt) }
        ensures len { IfSome result (λ n. (first : List ℕ) × HeadOf self.now session first
            × (length first + n ≡ self.now.datagrams.limit)) }
    {
        if self.check_session(session).is_err() {
            return None;
        }
        let Ok(head) = self.datagram_head(session) else {
            return None;
        };
        if head.len() > self.datagrams.limit {
            return None;
        }
        Some(self.datagrams.limit - head.len())
    }

    // Returns the first bytes of a datagram of a session.
    fn datagram_head(&self, session: u64) -> Result<Vec<u8>, Refused>
        ensures { IfOk result (λ first. HeadOf self.now session first.items) }
    {
        let Some(entry) = self.streams.get(&session) else {
            return Err(Refused::NotOpen);
        };
        let mut head = Vec::new(self.alloc);
        entry.writing.datagram_head(&mut head)?;
        Ok(head)
    }

    /// Returns the datagram that QUIC is to send next, or `None`. It is the same until it is sent, or its session or the
    /// connection ends.
    pub fn next_datagram(&self) -> Option<&[u8]>
        ensures { MatchOption result (self.now.datagrams.queue.items ≡ [])
            (λ bytes. option_map (λ v. v.items) (head self.now.datagrams.queue.items) ≡ Some bytes.now) }
    {
        match self.datagrams.queue.front() {
            Some(datagram) => Some(datagram.as_slice()),
            None => None,
        }
    }

    /// QUIC took the datagram that [`next_datagram`](Self::next_datagram) returned, or drops it.
    ///
    /// # Errors
    ///
    /// `Memory`: nothing changes, and the call is to be made again.
    #[tactic(auto, using(crate::proofs::ActLemmas::act, crate::proofs::ActLemmas::act_still, crate::proofs::ActLemmas::act_kept, crate::proofs::KeepsLemmas::kept, crate::proofs::LastsLemmas::lasts_refl))]
    pub fn datagram_sent(&mut self) -> Result<(), Refused>
        ensures ok { OnOk result (TakesFirst self.old.datagrams.queue.items self.new.datagrams.queue.items) }
        ensures kept { OnErr result (self.new.datagrams.queue.items ≡ self.old.datagrams.queue.items) }
        ensures refused { IfErr result (λ e. e ≡ refused.Memory) }
        ensures others { view_of self.new ≡ record (view_of self.old) { events = self.new.events.items; datagrams = self.new.datagrams.queue.items } }
        ensures own { Untouched self.old.streams.entries self.new.streams.entries }
        ensures left { Left self.old.streams.entries self.new.streams.entries }
        ensures config { self.new.config ≡ self.old.config }
        ensures goes { GoesOn [] self.old self.new }
        ensures lasts { LastsOn [] self.old self.new }
        ensures works { WorksOn self.old self.new }
    {
        self.reserve()?;
        let left = self.datagrams.queue.len().saturating_sub(1);
        self.tell_room(left)?;
        self.datagrams.queue.pop_front();
        Ok(())
    }

    // Drops the queued datagrams of a session that is over: none is sent after the end of the own half of its stream (RFC
    // 9297, section 2.1).
    pub(super) fn drop_datagrams(&mut self, session: u64) -> Result<(), AllocError>
        ensures keeps { Keeps [] self.old self.new }
        ensures others { view_of self.new ≡ record (view_of self.old) { events = self.new.events.items; datagrams = self.new.datagrams.queue.items } }
    {
        self.datagrams
            .queue
            .retain(|datagram| !is_of(datagram.as_slice(), session));
        let left = self.datagrams.queue.len();
        self.tell_room(left)
    }

    // Tells that there is room for datagrams again, of which so many are left, if that is owed.
    #[tactic(auto, using(crate::proofs::KeepsLemmas::keep, crate::proofs::GoesLemmas::goes_general))]
    fn tell_room(&mut self, left: usize) -> Result<(), AllocError>
        ensures queue { self.new.datagrams.queue ≡ self.old.datagrams.queue }
        ensures keeps { Keeps [] self.old self.new }
        ensures others { view_of self.new ≡ record (view_of self.old) { events = self.new.events.items; datagrams = self.new.datagrams.queue.items } }
    {
        if self.ended.is_some() || !self.datagrams.is_owed {
            return Ok(());
        }
        if left <= self.config.datagram_queue / 2 {
            self.events
                .push_back(Event::of_connection(EventKind::DatagramsWritable))?;
            self.datagrams.is_owed = false;
        }
        Ok(())
    }
}

// Returns whether a datagram is of this session.
fn is_of(datagram: &[u8], session: u64) -> bool {
    match first_varint(datagram) {
        Some((quarter, _)) => quarter.into_inner() == session / 4,
        None => false,
    }
}

// Returns the first bytes of a datagram with its payload.
fn joined(head: Vec<u8>, payload: &[u8]) -> Result<Vec<u8>, Refused>
    ensures { IfOk result (λ datagram. datagram.items ≡ head.items ++ payload.now) }
{
    let mut datagram = head;
    match datagram.extend_from_slice(payload) {
        Ok(()) => Ok(datagram),
        Err(_) => Err(Refused::Memory),
    }
}
