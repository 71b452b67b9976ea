//! An end: it does what its seed chooses, and keeps a journal.
use crate::journal::{Journal, Over};
use anyhow::{Result, bail};
use std::alloc::Global;
use std::collections::{BTreeSet, VecDeque};
use std::mem;
use test_network::connections::Connections;
use test_network::handler::Handler;
use test_network::random::Random;
use vesgrauf::connection::Connection;
use vesgrauf::event::{Event, EventKind, Tunnel, Why};
use vesgrauf::output::StreamKind;

/// What is to be said on a stream.
#[derive(Clone, Copy, Debug, PartialEq, Eq)]
pub struct Job {
    pub id: u64,
    /// How many bytes are left.
    pub left: u64,
    /// Whether it ends after them, or is reset.
    pub ends: bool,
    /// Whether there is no room for now.
    pub is_full: bool,
}

/// An end.
#[derive(Drop)]
pub struct Actor {
    pub alloc: Global,
    pub is_client: bool,
    pub random: Random,
    pub journal: Journal,
    pub jobs: VecDeque<Job>,
    /// The sessions that are open.
    pub sessions: BTreeSet<u64>,
    /// The streams that are paused.
    pub paused: BTreeSet<u64>,
    /// How many requests, streams of sessions and datagrams are still to be made.
    pub requests: usize,
    pub streams: usize,
    pub datagrams: usize,
    /// The number of the next datagram.
    pub number: u64,
    pub is_ready: bool,
    /// Whether it shuts down, and has begun to.
    pub leaves: bool,
    pub is_leaving: bool,
    /// Whether nothing was left, and whether the connection is over.
    pub is_idle: bool,
    pub is_over: bool,
}

impl Handler for Actor {
    fn event(&mut self, on: &mut Connections, event: Event<'_>) -> Result<()> {
        if self.is_over {
            bail!("an event after the last one");
        }
        let on = on.here();
        let Event {
            stream,
            session,
            kind,
            ..
        } = event;
        match kind {
            EventKind::Ready(_) => self.hear_ready(),
            EventKind::Request(_) => self.hear_request(on, stream),
            EventKind::Connect(Tunnel::Session, _) => self.hear_session(on, stream),
            EventKind::Connect(Tunnel::Other, _) => bail!("a tunnel that was not asked for"),
            EventKind::Response(status, _) => self.hear_response(stream, session, status),
            EventKind::NewStream(kind) => self.hear_stream(on, stream, kind),
            EventKind::Data(bytes) => self.hear_bytes(on, stream, bytes.as_slice()),
            EventKind::End => self.journal.hear_over(stream, Over::End),
            EventKind::Reset(code) => self.journal.hear_over(stream, Over::Reset(code.number())),
            EventKind::Stopped(_) => self.hear_stop(stream),
            EventKind::Datagram(bytes) => self.hear_datagram(stream, bytes.as_slice()),
            EventKind::Writable => self.hear_room(stream),
            EventKind::Closed(why) => self.hear_closed(stream, &why),
            EventKind::Idle => self.hear_idle(),
            EventKind::ConnectionClosed(code, _) => self.hear_end(code),
            EventKind::Failed(_) => bail!("a failure that was not asked for"),
            EventKind::Interim(_, _)
            | EventKind::Trailers(_)
            | EventKind::Draining
            | EventKind::GoAway(_)
            | EventKind::DatagramsWritable
            | EventKind::Openable(_) => Ok(()),
        }
    }

    fn turn(&mut self, on: &mut Connections) -> Result<()> {
        self.act(on.here())
    }
}

impl Actor {
    /// Creates an end that did nothing.
    pub fn new(alloc: Global, is_client: bool, seed: u64) -> Self {
        let mut random = Random::new(seed);
        let requests = if is_client {
            random.below(8).saturating_add(1)
        } else {
            0
        };
        Actor {
            alloc,
            is_client,
            journal: Journal::new(alloc),
            jobs: VecDeque::new(alloc),
            sessions: BTreeSet::new(alloc),
            paused: BTreeSet::new(alloc),
            requests,
            streams: random.below(12),
            datagrams: random.below(12),
            number: 0,
            is_ready: false,
            leaves: false,
            is_leaving: false,
            is_idle: false,
            is_over: false,
            random,
        }
    }

    /// Begins to shut down.
    pub fn leave(&mut self) {
        self.leaves = true;
    }

    /// Returns the journal, and leaves an empty one.
    pub fn take_journal(&mut self) -> Journal {
        let empty = Journal::new(self.alloc);
        mem::replace(&mut self.journal, empty)
    }

    /// Checks that all is over.
    pub fn check(&self) -> Result<()> {
        if !self.is_over {
            bail!("the connection of an end is not over");
        }
        self.journal.check_closed()
    }

    fn hear_ready(&mut self) -> Result<()> {
        self.is_ready = true;
        Ok(())
    }

    fn hear_response(&mut self, id: u64, session: Option<u64>, status: u32) -> Result<()> {
        self.journal.check_open(id)?;
        if session == Some(id) && status == 200 {
            self.sessions.insert(id)?;
        }
        Ok(())
    }

    /// Hears of a stream of a session. One in both directions is used.
    fn hear_stream(&mut self, on: &mut Connection, id: u64, kind: StreamKind) -> Result<()> {
        self.journal.know(id)?;
        self.journal.in_session.insert(id)?;
        if kind == StreamKind::Bidirectional {
            self.begin_job(id)?;
        }
        let _set = on.set_user(id, id);
        Ok(())
    }

    /// Hears bytes, and at times wants no more of them.
    fn hear_bytes(&mut self, on: &mut Connection, id: u64, bytes: &[u8]) -> Result<()> {
        self.journal.hear(id, !self.is_client, bytes)?;
        if self.random.one_in(60) {
            self.stop(on, id)
        } else if self.random.one_in(10) {
            self.pause(on, id)
        } else {
            Ok(())
        }
    }

    /// The peer stops the own half: it says no more.
    fn hear_stop(&mut self, id: u64) -> Result<()> {
        self.journal.check_open(id)?;
        self.journal.disturbed.insert(id)?;
        self.drop_job(id);
        Ok(())
    }

    fn hear_datagram(&mut self, session: u64, bytes: &[u8]) -> Result<()> {
        self.journal.check_open(session)?;
        let text = str::from_utf8(bytes)?;
        let number = text.parse::<u64>()?;
        self.journal.datagrams_heard.insert(number)?;
        Ok(())
    }

    fn hear_room(&mut self, id: u64) -> Result<()> {
        self.journal.check_open(id)?;
        for job in self.jobs.iter_mut() {
            if job.id == id {
                job.is_full = false;
            }
        }
        Ok(())
    }

    fn hear_closed(&mut self, id: u64, why: &Why) -> Result<()> {
        self.journal.close(id)?;
        self.drop_job(id);
        self.sessions.remove(&id);
        self.paused.remove(&id);
        match why {
            Why::Done | Why::Reset => Ok(()),
            Why::Session(close) => {
                self.journal.closes_heard.insert(id, close.code())?;
                self.disturb(id)
            }
            Why::Malformed(_) => bail!("stream {id} is malformed"),
            Why::TooLarge => bail!("stream {id} is too large"),
            _ => self.disturb(id),
        }
    }

    fn hear_idle(&mut self) -> Result<()> {
        self.is_idle = true;
        self.journal.check_closed()
    }

    fn hear_end(&mut self, code: u64) -> Result<()> {
        if code != 0x100 {
            bail!("the connection is closed with {code:x}");
        }
        self.is_over = true;
        Ok(())
    }

    pub fn disturb(&mut self, id: u64) -> Result<()> {
        self.journal.disturbed.insert(id)?;
        Ok(())
    }

    /// Says no more on a stream.
    pub fn drop_job(&mut self, id: u64) {
        for _job in 0..self.jobs.len() {
            if let Some(job) = self.jobs.pop_front() {
                if job.id != id {
                    let _kept = self.jobs.push_back(job);
                }
            }
        }
    }

    /// Begins to say something on a stream.
    pub fn begin_job(&mut self, id: u64) -> Result<()> {
        let most = if self.random.one_in(6) { 40_000 } else { 300 };
        let left = self.random.below(most) as u64;
        let ends = !self.random.one_in(8);
        self.jobs.push_back(Job {
            id,
            left,
            ends,
            is_full: false,
        })?;
        self.journal.say(id, 0, false)
    }
}
