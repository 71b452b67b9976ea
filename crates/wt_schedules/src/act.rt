//! What an end does.
use crate::actor::{Actor, Job};
use crate::journal::byte_at;
use anyhow::{Result, bail};
use vesgrauf::connection::Connection;
use vesgrauf::output::{Shutdown, StreamKind};
use vesgrauf::refused::Refused;
use vesgrauf::{Code, FieldList, StatusCode};

/// Some of the values that fields may have, so that tables are used.
static VALUES: [&str; 4] = [
    "a value of some length",
    "another value of some length",
    "short",
    "a value that is longer than the others, and is often repeated",
];

impl Actor {
    /// Does what is due, and at times something new.
    pub fn act(&mut self, on: &mut Connection) -> Result<()> {
        if self.is_over {
            return Ok(());
        }
        self.go_on(on)?;
        self.resume(on)?;
        if self.is_ready && self.random.one_in(3) {
            self.begin(on)?;
        }
        if self.leaves && !self.is_leaving {
            self.is_leaving = true;
            self.end_sessions(on)?;
            return accept(on.shutdown(Shutdown::Final));
        }
        Ok(())
    }

    /// Goes on with one job.
    fn go_on(&mut self, on: &mut Connection) -> Result<()> {
        let Some(job) = self.jobs.pop_front() else {
            return Ok(());
        };
        if job.is_full {
            self.jobs.push_back(job)?;
            return Ok(());
        }
        if job.left == 0 && !job.ends {
            let number = self.journal.code(job.id).number();
            self.journal.reset(job.id, number)?;
            return accept(on.reset(job.id, self.journal.code(job.id)));
        }
        self.say(on, job)
    }

    /// Says some of what is left on a stream.
    fn say(&mut self, on: &mut Connection, mut job: Job) -> Result<()> {
        let len = self.random.below(2_000) as u64;
        let len = len.min(job.left);
        let mut bytes = Vec::new(self.alloc);
        let from = self.journal.said(job.id).len;
        for at in 0..len {
            bytes.push(byte_at(job.id, self.is_client, from.saturating_add(at)))?;
        }
        let fin = job.ends && len == job.left;
        let sent = self.send(on, job.id, bytes, fin);
        match sent {
            Ok(room) => {
                self.journal.say(job.id, len, fin)?;
                job.left = job.left.saturating_sub(len);
                job.is_full = !room;
                if !fin {
                    self.jobs.push_back(job)?;
                }
                Ok(())
            }
            Err(Refused::Full) => {
                job.is_full = true;
                self.jobs.push_back(job)?;
                Ok(())
            }
            Err(refused) => bail!("stream {}: {refused}, {job:?}", job.id),
        }
    }

    /// Sends bytes, which are given away or copied.
    fn send(
        &mut self,
        on: &mut Connection,
        id: u64,
        bytes: Vec<u8>,
        fin: bool,
    ) -> Result<bool, Refused> {
        if self.random.one_in(2) {
            return on.send(id, bytes.as_slice(), fin);
        }
        match on.send_owned(id, bytes, fin) {
            Ok(room) => Ok(room),
            Err(not_sent) => Err(not_sent.why),
        }
    }

    /// Lets a paused stream go on.
    fn resume(&mut self, on: &mut Connection) -> Result<()> {
        if !self.random.one_in(4) && !self.leaves {
            return Ok(());
        }
        let Some(id) = self.paused.first().copied() else {
            return Ok(());
        };
        self.paused.remove(&id);
        accept(on.pause(id, false))
    }

    /// Begins something.
    fn begin(&mut self, on: &mut Connection) -> Result<()> {
        if self.requests > 0 {
            self.requests = self.requests.saturating_sub(1);
            return self.ask(on);
        }
        let count = self.sessions.len();
        let chosen = self.random.below(count);
        let Some(session) = self.sessions.iter().nth(chosen).copied() else {
            return Ok(());
        };
        if self.streams > 0 && self.random.one_in(2) {
            self.streams = self.streams.saturating_sub(1);
            return self.open(on, session);
        }
        if self.datagrams > 0 {
            self.datagrams = self.datagrams.saturating_sub(1);
            return self.say_in_datagram(on, session);
        }
        if self.random.one_in(40) {
            return self.end_session(on, session);
        }
        Ok(())
    }

    /// Sends a request, of which one in three asks for a session.
    fn ask(&mut self, on: &mut Connection) -> Result<()> {
        let is_session = self.random.one_in(3);
        let method: &[u8] = if is_session { b"CONNECT" } else { b"POST" };
        let mut list = FieldList::from_fields(
            self.alloc,
            &[
                (b":scheme", b"https"),
                (b":authority", b"a"),
                (b":path", b"/"),
            ],
        )?;
        list.append(b":method", method)?;
        if is_session {
            list.append(b":protocol", b"webtransport")?;
        }
        self.add_fields(&mut list)?;
        match on.request(&list, false) {
            Ok(id) => {
                self.journal.know(id)?;
                if is_session {
                    self.journal.sessions.insert(id)?;
                    self.disturb(id)
                } else {
                    self.begin_job(id)
                }
            }
            Err(refused) => accept(Err(refused)),
        }
    }

    /// Adds some fields.
    fn add_fields(&mut self, list: &mut FieldList) -> Result<()> {
        for _field in 0..self.random.below(4) {
            let chosen = self.random.below(VALUES.len());
            let value = VALUES.get(chosen).unwrap_or(&"");
            list.append(b"x-field", value.as_bytes())?;
        }
        Ok(())
    }

    /// Answers a request, and says something.
    pub fn hear_request(&mut self, on: &mut Connection, id: u64) -> Result<()> {
        self.journal.know(id)?;
        if self.random.one_in(4) {
            self.respond(on, id, StatusCode::EARLY_HINTS, false)?;
        }
        if self.random.one_in(5) {
            self.journal.say(id, 0, true)?;
            return self.respond(on, id, StatusCode::NOT_FOUND, true);
        }
        self.respond(on, id, StatusCode::OK, false)?;
        self.begin_job(id)
    }

    /// Answers a request for a session.
    pub fn hear_session(&mut self, on: &mut Connection, id: u64) -> Result<()> {
        self.journal.know(id)?;
        self.journal.sessions.insert(id)?;
        self.disturb(id)?;
        if self.random.one_in(5) {
            return self.respond(on, id, StatusCode::NOT_FOUND, true);
        }
        self.respond(on, id, StatusCode::OK, false)?;
        self.sessions.insert(id)?;
        Ok(())
    }

    fn respond(&mut self, on: &mut Connection, id: u64, code: StatusCode, fin: bool) -> Result<()> {
        let mut list = FieldList::response(self.alloc, code)?;
        self.add_fields(&mut list)?;
        Ok(on.respond(id, &list, fin)?)
    }

    /// Opens a stream of a session, and says something on it.
    fn open(&mut self, on: &mut Connection, session: u64) -> Result<()> {
        let kind = if self.random.one_in(2) {
            StreamKind::Bidirectional
        } else {
            StreamKind::Unidirectional
        };
        let id = on.open_stream(session, kind)?;
        self.journal.know(id)?;
        self.journal.in_session.insert(id)?;
        self.begin_job(id)
    }

    /// Sends a datagram, whose text is its number.
    fn say_in_datagram(&mut self, on: &mut Connection, session: u64) -> Result<()> {
        let number = self.number;
        self.number = number.saturating_add(1);
        let text = format!(in self.alloc; "{number}")?;
        if on.send_datagram(session, text.as_bytes())? {
            self.journal.datagrams_said.insert(number)?;
        }
        Ok(())
    }

    /// Ends all sessions.
    fn end_sessions(&mut self, on: &mut Connection) -> Result<()> {
        for _session in 0..self.sessions.len() {
            if let Some(session) = self.sessions.first().copied() {
                self.end_session(on, session)?;
            }
        }
        Ok(())
    }

    /// Ends a session in one of the ways that there are.
    fn end_session(&mut self, on: &mut Connection, session: u64) -> Result<()> {
        self.sessions.remove(&session);
        match self.random.below(4) {
            0 => {
                self.journal.closes_said.insert(session, 0)?;
                Ok(on.finish(session)?)
            }
            1 => {
                on.drain_session(session)?;
                self.journal.closes_said.insert(session, 7)?;
                Ok(on.close_session(session, 7, "good bye")?)
            }
            2 => Ok(on.abort(session, Code::H3_REQUEST_CANCELLED.into())?),
            _ => {
                self.journal.closes_said.insert(session, 9)?;
                Ok(on.close_session(session, 9, "")?)
            }
        }
    }

    /// Wants no more of a stream, or gives it up.
    pub fn stop(&mut self, on: &mut Connection, id: u64) -> Result<()> {
        self.disturb(id)?;
        self.paused.remove(&id);
        if self.random.one_in(2) {
            return Ok(on.stop_sending(id, self.journal.code(id))?);
        }
        self.drop_job(id);
        Ok(on.abort(id, self.journal.code(id))?)
    }

    /// Wants nothing of a stream for a while.
    pub fn pause(&mut self, on: &mut Connection, id: u64) -> Result<()> {
        self.paused.insert(id)?;
        Ok(on.pause(id, true)?)
    }
}

/// Accepts that a call may come too late.
fn accept(result_of: Result<(), Refused>) -> Result<()> {
    match result_of {
        Err(Refused::Memory) => bail!("no memory"),
        _ => Ok(()),
    }
}
