//! Streams that wait.
ghost use Rattle.std.specs.Prelude.{◌≡◌, ◌≤◌, ◌+◌, true, []};
ghost use Rattle.vesgrauf.specs.Keeps.{Keeps};
ghost use Rattle.vesgrauf.specs.State.{known_in, unless_over as unless_over_is};
ghost use Rattle.vesgrauf.specs.Theirs.{IsSilent};
ghost use Rattle.vesgrauf.specs.Told.{said_in};

use crate::connection::{Connection, Step, Stop};
use std::alloc::AllocError;
use wtp_connection::connection::Known;
use wtp_frames::endpoint::Side;
use wtp_webtransport::event::{Event as Said, Waits};

#[tactic(auto, using(crate::proofs::KeepsLemmas::keep))]
impl Connection {
    // Returns the session that a stream waits for, or is to join.
    pub(super) fn session_awaited(&self, id: u64) -> Option<u64> {
        if let Some(named) = self.pending.named {
            if named.id == id {
                return Some(named.session);
            }
        }
        match self.streams.get(&id) {
            Some(entry) => match entry.reading.waits() {
                Some(Waits::Session(session)) => Some(session),
                _ => None,
            },
            None => None,
        }
    }

    // Notes that a stream is read again later.
    pub(super) fn wait(&mut self, id: u64) -> Result<(), AllocError>
        ensures keeps { Keeps [] self.old self.new }
    {
        self.waiting.insert(id)?;
        Ok(())
    }

    // Notes that a stream waits for this. Too many that wait for the dynamic table are an error (RFC 9204, section
    // 2.1.2).
    pub(super) fn wait_for(&mut self, id: u64, wait: Waits) -> Result<(), Stop>
        ensures keeps { Keeps [] self.old self.new }
    {
        self.wait(id)?;
        if matches!(wait, Waits::Table(_)) && self.has_too_many_blocked() {
            if let Said::ConnectionError(fault) = self.blocks_too_many() {
                return Err(Stop::from(fault));
            }
        }
        Ok(())
    }

    // More streams wait for the dynamic table than may.
    #[tactic(auto, using(crate::proofs::KeepsLemmas::keep, crate::proofs::TableSteps::keeps_blocked))]
    fn blocks_too_many(&mut self) -> Said<'static>
        ensures keeps { Keeps [] self.old self.new }
    {
        self.shared.too_many_blocked()
    }

    // Returns whether the program wants no events of a stream.
    pub(super) fn is_paused(&self, id: u64) -> bool {
        match self.streams.get(&id) {
            Some(entry) => entry.is_paused,
            None => false,
        }
    }

    // Returns whether more streams wait for the dynamic table than may.
    fn has_too_many_blocked(&self) -> bool {
        let mut left = u64::from(self.config.qpack_blocked_streams);
        for id in &self.waiting {
            if self.is_blocked_by_table(*id) {
                let Some(less) = left.checked_sub(1) else {
                    return true;
                };
                left = less;
            }
        }
        false
    }

    // Returns whether a stream waits for more insertions than there were.
    fn is_blocked_by_table(&self, id: u64) -> bool {
        match self.streams.get(&id) {
            Some(entry) => match entry.reading.waits() {
                Some(Waits::Table(required)) => self.shared.insert_count() < required,
                _ => false,
            },
            None => false,
        }
    }

    // Looks at the next of the streams that wait.
    pub(super) fn wake_next<'a>(&mut self) -> Step<'a>
        ensures keeps { Keeps (said_in result) self.old self.new }
        ensures silent { IsSilent result }
    {
        let Some(id) = self.next_waiting() else {
            self.pending.is_woken = false;
            self.pending.cursor = 0;
            return Step::More;
        };
        self.pending.cursor = id.saturating_add(1);
        if self.is_past(id) {
            self.pending.resumed = Some(id);
        }
        Step::More
    }

    pub(super) fn next_waiting(&self) -> Option<u64> {
        let cursor = self.pending.cursor;
        self.waiting.range(cursor..).next().copied()
    }

    // Returns whether the wait of a stream is over.
    fn is_past(&self, id: u64) -> bool {
        let Some(entry) = self.streams.get(&id) else {
            return false;
        };
        if entry.is_paused {
            return false;
        }
        match entry.reading.waits() {
            None => true,
            Some(Waits::Settings) => self.is_configured,
            Some(Waits::Answer) => false,
            Some(Waits::Session(session)) => !matches!(self.known_to(id, session), Known::Coming),
            Some(Waits::Table(required)) => required <= self.shared.insert_count(),
        }
    }

    // Looks at the streams that wait once more.
    pub(super) fn wake(&mut self)
        ensures { self.new ≡ record self.old {
          pending = record self.old.pending { is_woken = true; cursor = 0 };
        } }
    {
        self.pending.is_woken = true;
        self.pending.cursor = 0;
    }

    // Looks at them once more, if there are any.
    pub(super) fn wake_waiting(&mut self)
        ensures { self.new ≡ record self.old { pending = self.new.pending } }
    {
        if !self.waiting.is_empty() {
            self.wake();
        }
    }

    // Returns how many more bytes of a stream that waits QUIC's windows are extended by. Half of `receive_buffer_all` is
    // left to frames that are cut.
    pub(super) fn room_to_wait(&self, id: u64) -> usize {
        let Some(entry) = self.streams.get(&id) else {
            return 0;
        };
        let all = (self.config.receive_buffer_all / 2).saturating_sub(self.held);
        let own = self
            .config
            .receive_buffer
            .saturating_sub(entry.reading.len());
        all.min(own)
    }

    // Returns whether QUIC's windows may be extended by so many more bytes that are kept.
    pub(super) fn has_room_to_hold(&self, len: usize) -> bool
        ensures { result ≡ true → self.now.held + len ≤ self.now.config.receive_buffer_all }
    {
        len <= self.config.receive_buffer_all.saturating_sub(self.held)
    }

    // Returns what is known of a session. One that ended here is over. At a client any of its requests is over that has no
    // stream left, and was that of a session for all that is known.
    pub(super) fn known(&self, session: u64) -> Known
        ensures { result ≡ known_in self.now session }
    {
        match self.streams.get(&session) {
            Some(entry) => unless_over(entry.has_session, entry.reading.known(&self.shared)),
            None => match self.config.side {
                Side::Server => self.shared.known_without_stream(session),
                Side::Client => {
                    if session % 4 == 0 && self.ids.was(session) {
                        Known::Over
                    } else {
                        Known::Impossible
                    }
                }
            },
        }
    }
}

// Returns what is known of a session that its stream shows as this: it is open only if it did not end here.
fn unless_over(counts: bool, known: Known) -> Known
    ensures { result ≡ unless_over_is counts known }
{
    match known {
        Known::Open if !counts => Known::Over,
        known => known,
    }
}
