//! Rules that the peer violates, and where.
ghost use Rattle.std.specs.Prelude.{◌≡◌, true, []};
ghost use Rattle.vesgrauf.specs.Keeps.{Keeps};
ghost use Rattle.vesgrauf.specs.State.{is_over, stream_at, IsStill};
ghost use Rattle.vesgrauf.specs.Order.{waits_on};

use crate::connection::Connection;
use crate::entry::Told;
use crate::event::{Event, EventKind, Failure, Rule, Why};
use crate::input::{Input, Report};
use std::alloc::AllocError;
use vesgrauf_stream::heard::Heard;
use vesgrauf_stream::reading::Found;
use wtp_connection::fault::Fault as StreamsFault;
use wtp_frames::fault::Fault as StreamFault;
use wtp_webtransport::event::{Event as Said, Waits};
use wtp_webtransport::fault::Fault;

/// More came than the limits allow (RFC 9114, section 10.5).
pub(super) const EXCESSIVE_LOAD: Fault = Fault::Streams(StreamsFault::Stream(
    StreamFault::ExcessiveLoad,
));

/// SETTINGS announce datagrams, and QUIC's transport parameters do not (RFC 9297, section 2.1.1).
pub(super) const NO_DATAGRAMS: Fault = Fault::Streams(StreamsFault::Settings);

#[tactic(auto, using(crate::proofs::KeepsLemmas::keep))]
impl Connection {
    /// Returns the rule by whose violation the peer ended the connection, or `None` if it did not end so.
    pub fn failure(&self) -> Option<Failure>
        ensures { result ≡ self.now.failure }
    {
        self.failure
    }

    /// Returns what a stream waits for whose bytes came and cannot be read yet, or `None` if it waits for nothing.
    pub fn waits(&self, id: u64) -> Option<Waits>
        ensures { result ≡ waits_on (stream_at self.now id) }
    {
        match self.streams.get(&id) {
            Some(entry) => entry.reading.waits(),
            None => None,
        }
    }

    // Returns the stream that the next step is about, if it is about one.
    pub(super) fn stream_at_hand(&self, input: &Input<'_>) -> Option<u64> {
        if self.pending.resumed.is_some() {
            return self.pending.resumed;
        }
        match input.report {
            Report::Stream(id)
            | Report::Reset(id, _)
            | Report::Stopped(id, _)
            | Report::Closed(id) => Some(id),
            _ => None,
        }
    }

    // Ends the connection by an error of this stream, if it is one of a stream.
    pub(super) fn fail(&mut self, stream: Option<u64>, code: u64, fault: Option<Fault>)
        ensures keeps { Keeps [] self.old self.new }
        ensures streams { self.new.streams.entries ≡ self.old.streams.entries }
        ensures ids { self.new.ids ≡ self.old.ids }
        ensures over { is_over self.new ≡ true }
    {
        self.note_failure(stream, fault);
        self.break_off(code);
    }

    // Notes the fault by which the connection ends, if it is one of the peer, and where it is.
    fn note_failure(&mut self, stream: Option<u64>, fault: Option<Fault>)
        ensures still { IsStill self.old self.new }
        ensures keeps { Keeps [] self.old self.new }
    {
        if let Some(fault) = fault {
            let offset = match stream {
                Some(id) => self.offset_of(id),
                None => 0,
            };
            self.failure = Some(Failure {
                rule: Rule::Fault(fault),
                stream,
                offset,
            });
        }
    }

    // Tells of the rule that the peer violated on a stream, if the program is to know of it: nothing follows the last event
    // of a stream.
    #[tactic(auto, using(crate::proofs::KeepsLemmas::keep, crate::proofs::GoesSteps::goes_failed))]
    pub(super) fn tell_failure(&mut self, id: u64, why: &Why) -> Result<(), AllocError>
        ensures keeps { Keeps [] self.old self.new }
        ensures others { self.new ≡ record self.old { events = self.new.events } }
    {
        let Some(rule) = rule_of(why) else {
            return Ok(());
        };
        if !self.config.tells_failures {
            return Ok(());
        }
        let Some(entry) = self.streams.get(&id) else {
            return Ok(());
        };
        if entry.told == Told::Over {
            return Ok(());
        }
        let failure = Failure {
            rule,
            stream: Some(id),
            offset: entry.offset,
        };
        self.events.push_back(Event {
            stream: id,
            session: entry.session_shown(id),
            user: entry.user,
            kind: EventKind::Failed(failure),
        })?;
        Ok(())
    }

    // Counts bytes of a stream that were read.
    #[tactic(auto, using(crate::proofs::KeepsLemmas::keep, crate::proofs::PlaceLemmas::ordered, crate::proofs::JoinedLemmas::joined))]
    pub(super) fn count_read(&mut self, id: u64, len: usize)
        ensures keeps { Keeps [] self.old self.new }
    {
        if let Some(entry) = self.streams.get_mut(&id) {
            entry.offset = entry.offset.saturating_add(len as u64);
        }
    }

    fn offset_of(&self, id: u64) -> u64 {
        match self.streams.get(&id) {
            Some(entry) => entry.offset,
            None => 0,
        }
    }
}

// Returns whether an error was found.
pub(super) fn is_failure(found: &Found<'_>) -> bool {
    match found {
        Found::Heard(Heard::Event(event)) => matches!(
            event,
            Said::ConnectionError(_) | Said::StreamError(_) | Said::Malformed(_) | Said::TooLarge(_)
        ),
        _ => false,
    }
}

// Returns the rule that was violated where a stream is over for this reason.
fn rule_of(why: &Why) -> Option<Rule> {
    match why {
        Why::Fault(fault) => Some(Rule::Fault(*fault)),
        Why::Malformed(rule) => Some(Rule::Malformed(*rule)),
        Why::TooLarge => Some(Rule::TooLarge),
        _ => None,
    }
}
