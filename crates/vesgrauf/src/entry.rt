//! One stream of a connection.
use crate::refused::{NotSent, Refused};
use vesgrauf_queue::error::NotShown;
use vesgrauf_queue::spares::Spares;
use vesgrauf_ready::rank::{Kind, Priority};
use vesgrauf_stream::reading::Reading;
use vesgrauf_stream::writing::Writing;

/// The priority of a stream of a session, and of its own stream: they share the bandwidth (RFC 9218, section 11).
pub(crate) const SHARED: Priority = Priority {
    urgency: 3,
    incremental: true,
};

/// What is done with the peer's half of a stream.
#[derive(Clone, Copy, Debug, PartialEq, Eq)]
pub(crate) enum Peer {
    /// It is read.
    Reads,
    /// What comes is dropped, until its end.
    Drops,
    /// It is over, or there is none.
    Over,
}

/// What the program knows of a stream, once it is told what is queued.
#[derive(Clone, Copy, Debug, PartialEq, Eq)]
pub(crate) enum Told {
    /// Nothing: no event of it but failures was told or queued, and the program did not open it.
    NotYet,
    /// That it is there.
    Known,
    /// That it is over; or nothing, and nothing will be told. It stays so.
    Over,
}

/// One stream of a connection.
#[derive(Drop)]
pub(crate) struct Entry {
    /// The peer's half.
    pub(crate) reading: Reading,
    /// What is done with it.
    pub(crate) peer: Peer,
    /// The own half.
    pub(crate) writing: Writing,
    /// The session that it is joined with.
    pub(crate) session: Option<u64>,
    /// The number that the program gave it.
    pub(crate) user: Option<u64>,
    /// Its priority.
    pub(crate) priority: Priority,
    /// What the program knows of it.
    pub(crate) told: Told,
    /// Whether QUIC has opened it.
    pub(crate) is_opened: bool,
    /// Whether QUIC has closed it: nothing more is asked of QUIC on it.
    pub(crate) is_closed: bool,
    /// Whether QUIC takes nothing of it.
    pub(crate) is_blocked: bool,
    /// Whether the program wants no events of it.
    pub(crate) is_paused: bool,
    /// Whether it has a request without an answer that its client did not give up.
    pub(crate) is_awaited: bool,
    /// Whether the peer's encoder is to be told if the stream is left (RFC 9204, section 2.2.2.2).
    pub(crate) may_cancel: bool,
    /// Whether it is the own stream of a session.
    pub(crate) is_session: bool,
    /// Whether its session counts: it is to come, or open.
    pub(crate) has_session: bool,
    /// Whether the end of the peer's half came.
    pub(crate) is_ended: bool,
    /// Whether the message asks for a tunnel other than a session, which the server has not accepted, if this is one.
    pub(crate) has_tunnel: bool,
    /// Whether the peer keeps it for the connection: the control stream, those of QPACK, and those that are ignored.
    pub(crate) is_quiet: bool,
    /// Whether its bytes are instructions for the own encoder: the peer's decoder stream (RFC 9204, section 4.2).
    pub(crate) is_decoder: bool,
    /// How many of the bytes that are kept QUIC's windows were not extended by.
    pub(crate) withheld: usize,
    /// How many ticks there were when it named its session.
    pub(crate) since: u64,
    /// How many bytes of it were read, up to an error.
    pub(crate) offset: u64,
    /// Whether the own half was reset.
    pub(crate) is_reset: bool,
    /// Whether it has a request that the server rejected (RFC 9114, section 4.1.1).
    pub(crate) is_rejected: bool,
    /// What the peer is asked to stop it with, once QUIC has opened it.
    pub(crate) stops: Option<u64>,
    /// What the peer asked to stop the own half with, before the program knew of the stream.
    pub(crate) stopped: Option<u64>,
}

impl Entry {
    ghost use Rattle.vesgrauf.specs.Theirs.{Gone, theirs_of};
    ghost use Rattle.vesgrauf.specs.declared.entry.Peer.TheVariants as peer;
    ghost use Rattle.std.specs.Prelude.{◌≡◌, ◌-◌, ◌&&◌, ◌↔◌, true, false, not, if◌then◌else◌, Some, IsTrue, IfOk, IfErr, OnOk, OnErr, length};
    ghost use Rattle.vesgrauf_stream.specs.Reading.{kept_of};
    ghost use Rattle.vesgrauf_stream.specs.Writing.{Sends};
    ghost use Rattle.vesgrauf.specs.Own.{Over, own_of, Took};
    ghost use Rattle.vesgrauf.specs.Joined.{StaysOut};
    ghost use Rattle.vesgrauf.specs.Places.{has_more};
    ghost use Rattle.vesgrauf.specs.State.{OwnHalf, RefusesBytes, StaysOf};
    ghost use Rattle.vesgrauf_queue.specs.State.{IsIdle};
    ghost use Rattle.vesgrauf.specs.declared.refused.Refused.TheVariants as refused;
    ghost use Rattle.vesgrauf.specs.Streams.{new_entry, kind_of_entry, is_known as is_known_is, becomes_known, may_send as may_send_is, is_done as is_done_is, shown_session};

    // Creates the entry of a stream of which nothing came.
    pub(crate) fn new(reading: Reading, peer: Peer, writing: Writing) -> Self
        ensures { result ≡ new_entry reading peer writing }
    {
        Entry {
            reading,
            peer,
            writing,
            session: None,
            user: None,
            priority: Priority::DEFAULT,
            told: Told::NotYet,
            is_opened: true,
            is_closed: false,
            is_blocked: false,
            is_paused: false,
            is_awaited: false,
            may_cancel: false,
            is_session: false,
            has_session: false,
            is_ended: false,
            has_tunnel: false,
            is_quiet: false,
            is_decoder: false,
            withheld: 0,
            since: 0,
            offset: 0,
            is_reset: false,
            is_rejected: false,
            stops: None,
            stopped: None,
        }
    }

    // Returns its place in the order of sending.
    pub(crate) fn kind(&self) -> Kind
        ensures { result ≡ kind_of_entry self.now }
    {
        Kind::Message(self.priority)
    }

    // Returns whether the program knows of it, and was not told that it is over.
    pub(crate) fn is_known(&self) -> bool
        ensures { result ≡ is_known_is self.now.told }
    {
        self.told == Told::Known
    }

    // The program is told of it. One that is over stays so.
    pub(crate) fn know(&mut self)
        ensures { self.new ≡ record self.old { told = becomes_known self.old.told } }
    {
        if self.told == Told::NotYet {
            self.told = Told::Known;
        }
    }

    // Returns whether it has another priority than it has unless the program says so.
    pub(crate) fn is_prioritized(&self) -> bool {
        let is_shared = self.is_session || self.has_tunnel || self.session.is_some();
        let usual = if is_shared { SHARED } else { Priority::DEFAULT };
        self.priority != usual
    }

    // Returns whether QUIC may take bytes of it.
    pub(crate) fn may_send(&self) -> bool
        ensures { result ≡ may_send_is self.now }
    {
        self.is_opened && !self.is_blocked
    }

    // Returns whether QUIC is to take bytes of it, or its end.
    #[tactic(auto, using(crate::proofs::QueuedLemmas::more_is))]
    pub(crate) fn has_more(&self) -> bool
        ensures idle { IsTrue result ↔ ¬ (IsIdle self.now.writing.queue) }
        ensures more { result ≡ has_more self.now.writing.queue }
    {
        self.has_next()
    }

    // Returns whether bytes wait, or its end.
    fn has_next(&self) -> bool
        ensures { IsTrue result ↔ ¬ (IsIdle self.now.writing.queue) }
    {
        if self.writing.has_waiting() {
            return true;
        }
        self.writing.is_ended() && self.writing.next().is_some()
    }

    // Returns whether both halves are over, and QUIC took what was queued.
    pub(crate) fn is_done(&self) -> bool
        ensures { result ≡ is_done_is self.now }
    {
        self.peer == Peer::Over && self.is_opened && self.writing.is_done()
    }

    // Returns whether the own half was reset, or there is none.
    #[tactic(auto, using(crate::proofs::LostLemmas::out_none, crate::proofs::LostLemmas::out_reset))]
    pub(crate) fn is_out(&self) -> bool
        ensures { result ≡ true → own_of self.now.writing ≡ Over }
    {
        if self.writing.is_none() {
            return true;
        }
        if !self.writing.is_ended() {
            return false;
        }
        !self.writing.is_finished()
    }

    // Returns whether the peer's half is read.
    pub(crate) fn is_read(&self) -> bool
        ensures reads { result ≡ true → self.now.peer ≡ peer.Reads }
        ensures gone { result ≡ false → theirs_of self.now ≡ Gone }
    {
        match self.peer {
            Peer::Reads => true,
            Peer::Drops | Peer::Over => false,
        }
    }

    // Queues content, or bytes of a stream of a session. Where the program was told that the stream is full, they are
    // refused as long as it is.
    pub(crate) fn send(
        &mut self,
        spares: &mut Spares,
        bytes: &[u8],
        fin: bool,
        was_full: bool,
    ) -> Result<bool, Refused>
        ensures ok { IfOk result (λ room. OwnHalf (Sends bytes.now fin room) self.old self.new) }
        ensures why { IfErr result (λ e. RefusesBytes (length bytes.now) fin self.old.writing e) }
        ensures told { IfErr result (λ e. e ≡ refused.Full → was_full ≡ true) }
        ensures kept { IfErr result (λ e. StaysOf e self.old self.new) }
        ensures place { (self.new.is_opened ≡ self.old.is_opened) × (self.new.is_blocked ≡ self.old.is_blocked)
            × (self.new.priority ≡ self.old.priority) }
    {
        if was_full && !self.writing.admits() {
            return Err(Refused::Full);
        }
        Ok(self.writing.send(spares, bytes, fin)?)
    }

    // Queues bytes as `send` does, without a copy if there are many, or gives them back.
    pub(crate) fn send_owned(
        &mut self,
        spares: &mut Spares,
        bytes: Vec<u8>,
        fin: bool,
        was_full: bool,
    ) -> Result<bool, NotSent>
        ensures ok { IfOk result (λ room. OwnHalf (Sends bytes.items fin room) self.old self.new) }
        ensures why { IfErr result (λ e. RefusesBytes (length bytes.items) fin self.old.writing e.why) }
        ensures told { IfErr result (λ e. e.why ≡ refused.Full → was_full ≡ true) }
        ensures kept { IfErr result (λ e. StaysOf e.why self.old self.new) }
        ensures bytes { IfErr result (λ e. e.bytes ≡ bytes) }
        ensures place { (self.new.is_opened ≡ self.old.is_opened) × (self.new.is_blocked ≡ self.old.is_blocked)
            × (self.new.priority ≡ self.old.priority) }
    {
        if was_full && !self.writing.admits() {
            return Err(NotSent {
                why: Refused::Full,
                bytes,
            });
        }
        match self.writing.send_owned(spares, bytes, fin) {
            Ok(room) => Ok(room),
            Err(refused) => Err(NotSent {
                why: Refused::from(refused.why),
                bytes: refused.bytes,
            }),
        }
    }

    // QUIC took the first `len` bytes that wait.
    #[tactic(auto, using(crate::proofs::QueuedLemmas::more_put, crate::proofs::SeveredLemmas::out_put))]
    pub(crate) fn sent(&mut self, spares: &mut Spares, len: usize) -> Result<(), NotShown>
        ensures took { OnOk result (Took len (own_of self.old.writing) (own_of self.new.writing)) }
        ensures kept { OnErr result (self.new ≡ self.old) }
        ensures more { has_more self.new.writing.queue ≡ true → has_more self.old.writing.queue ≡ true }
        ensures out { StaysOut self.old.writing self.new.writing }
        ensures others { self.new ≡ record self.old { writing = self.new.writing } }
    {
        self.writing.sent(spares, len)
    }

    // Returns how many of the bytes that are kept QUIC's windows were extended by.
    pub(crate) fn credited(&self) -> usize
        ensures { result ≡ length (kept_of self.now.reading) - self.now.withheld }
    {
        self.reading.len().saturating_sub(self.withheld)
    }

    // Returns the session of the stream with this ID, as events show it.
    pub(crate) fn session_shown(&self, id: u64) -> Option<u64>
        ensures { result ≡ shown_session id self.now }
    {
        if self.is_session {
            return Some(id);
        }
        self.session
    }
}

/// A stream of a session.
#[derive(Clone, Copy, PartialEq, Eq, PartialOrd, Ord)]
pub(crate) struct Member {
    /// The session.
    pub(crate) session: u64,
    /// The stream.
    pub(crate) id: u64,
}
