//! A connection that is over.
ghost use Rattle.std.specs.Prelude.{◌≡◌, true, false, [], None};
ghost use Rattle.std.specs.List.{filter};
ghost use Rattle.vesgrauf.specs.Keeps.{Keeps};
ghost use Rattle.vesgrauf.specs.State.{go_on, is_over, is_last, IsAfterEnd, IsTold, EndsUnless, closes_stream, stream_at, knows_of};
ghost use Rattle.vesgrauf.specs.Theirs.{IsSilent};
ghost use Rattle.vesgrauf.specs.Told.{GoesOn, said_in};

use crate::connection::peers::dropped;
use crate::connection::{Connection, Ended, Step};
use crate::event::{Event, EventKind, Why};
use crate::input::{Input, Report};
use std::collections::VecDeque;
use wtp_connection::stream::Purpose;

#[tactic(auto, using(crate::proofs::KeepsLemmas::keep))]
impl Connection {
    // The peer or QUIC closed the connection.
    #[tactic(auto, using(crate::proofs::KeepsLemmas::keep, crate::proofs::KeepsLemmas::keeps_at_end, crate::proofs::GoesLemmas::goes_refl))]
    pub(super) fn end_by_peer(&mut self, code: u64)
        ensures keeps { Keeps [] self.old self.new }
    {
        self.datagrams.queue.clear();
        self.ended = Some(Ended {
            code,
            by_peer: true,
            is_told: false,
        });
        self.pending.cursor = 0;
    }

    // Ends the connection by an error.
    #[tactic(auto, using(crate::proofs::KeepsLemmas::keeps_refl, crate::proofs::KeepsLemmas::keeps_at_end, crate::proofs::GoesSteps::goes_filtered))]
    pub(super) fn break_off(&mut self, code: u64)
        ensures end { EndsUnless (is_over self.old) code self.old self.new }
        ensures after { is_over self.old ≡ false → IsAfterEnd self.new }
        ensures goes { GoesOn [] self.old self.new }
        ensures keeps { Keeps [] self.old self.new }
    {
        if self.ended.is_some() {
            return;
        }
        self.shared.stopped(Purpose::Control);
        keep_closed(&mut self.events);
        self.outputs.clear();
        self.datagrams.queue.clear();
        self.ended = Some(Ended {
            code,
            by_peer: false,
            is_told: false,
        });
        self.closes = Some(code);
        self.pending.cursor = 0;
    }

    // Takes a step after the end of the connection: what comes is dropped, and each stream that the program knows of is
    // told to be over.
    #[tactic(auto, using(crate::proofs::KeepsLemmas::keep, crate::proofs::KeepsLemmas::keeps_at_end, crate::proofs::GoesLemmas::goes_aside))]
    pub(super) fn step_after_end<'a>(&mut self, ended: Ended, input: &mut Input<'a>) -> Step<'a>
        ensures last { IsTold result (λ e. is_last e.kind ≡ true) }
        ensures over { is_over self.old ≡ true → is_over self.new ≡ true }
        ensures events { self.new.events ≡ self.old.events }
        ensures keeps { Keeps (said_in result) self.old self.new }
        ensures silent { IsSilent result }
    {
        // (what is queued is told first)
        if !self.events.is_empty() {
            return Step::More;
        }
        self.drop_report(input);
        if let Some(id) = self.next_told() {
            self.pending.cursor = id.saturating_add(1);
            return self.tell_last(id);
        }
        if ended.is_told {
            return Step::Nothing;
        }
        self.ended = Some(Ended {
            is_told: true,
            ..ended
        });
        Step::Told(Event::of_connection(EventKind::ConnectionClosed(ended.code, ended.by_peer)))
    }

    // Drops what comes after the end of the connection. If the peer closed it, QUIC need not.
    fn drop_report<'a>(&mut self, input: &mut Input<'a>)
        ensures keeps { Keeps [] self.old self.new }
        ensures events { self.new.events ≡ self.old.events }
        ensures ended { self.new.ended ≡ self.old.ended }
    {
        if matches!(input.report, Report::ConnectionClosed(_)) {
            self.closes = None;
        }
        if matches!(input.report, Report::Stream(_)) {
            input.drop_rest();
        }
        input.report = Report::Nothing;
    }

    // Tells that a stream is over, since the connection is.
    #[tactic(auto, using(crate::proofs::KeepsLemmas::keeps_refl, crate::proofs::OverLemmas::keeps_last, crate::proofs::OverLemmas::ended_unknown))]
    fn tell_last(&mut self, id: u64) -> Step<'static>
        ensures last { IsTold result (λ e. is_last e.kind ≡ true) }
        ensures known { IsTold result (λ e. (e.stream ≡ id) × (knows_of (stream_at self.old id) ≡ true)) }
        ensures done { knows_of (stream_at self.new id) ≡ false }
        ensures ended { self.new.ended ≡ self.old.ended }
        ensures events { self.new.events ≡ self.old.events }
        ensures silent { IsSilent result }
        ensures keeps { self.old.events.items ≡ [] → Keeps (said_in result) self.old self.new }
    {
        let Some(entry) = self.streams.get(&id) else {
            return Step::More;
        };
        if !entry.is_known() {
            return Step::More;
        }
        let event = Event {
            stream: id,
            session: entry.session_shown(id),
            user: entry.user,
            kind: EventKind::Closed(Why::ConnectionClosed),
        };
        self.end_told(id);
        Step::Told(event)
    }

    // Returns the next stream that the program knows of.
    fn next_told(&self) -> Option<u64> {
        let mut from = self.pending.cursor;
        for _stream in 0..self.streams.len() {
            let (id, entry) = self.streams.next_from(from)?;
            if entry.is_known() {
                return Some(id);
            }
            from = id.saturating_add(1);
        }
        None
    }
}

// Keeps the last events of streams: each stream that the program knows of has one.
fn keep_closed(events: &mut VecDeque<Event<'static>>)
    ensures kept { events.new.items ≡ filter closes_stream events.old.items }
    ensures last { go_on events.new.items ≡ false }
{
    events.retain(|event| matches!(event.kind, EventKind::Closed(_)));
}
