//! The clients: each connection may have several members of the room.
use crate::room::text;
use anyhow::Result;
use std::alloc::Global;
use std::collections::{BTreeMap, VecDeque};
use test_network::connections::Connections;
use test_network::handler::Handler;
use vesgrauf::code::StreamCode;
use vesgrauf::connection::Connection;
use vesgrauf::event::{Event, EventKind};
use vesgrauf::fields;
use vesgrauf::output::StreamKind;

/// What is to be done on a connection.
#[derive(Clone, Copy, Debug, PartialEq, Eq)]
pub enum Todo {
    /// Ask for a session under a name: at a path, from an origin.
    Join(&'static str, &'static str, &'static str),
    /// Say a line on a stream of this kind.
    Say(&'static str, StreamKind, &'static str),
    /// Say something in a datagram.
    SayInDatagram(&'static str, &'static str),
    /// Ask for a page.
    Get(&'static str),
}

/// A stream: whose it is, or what was asked for on it.
#[derive(Drop)]
struct Heard {
    of: &'static str,
    bytes: Vec<u8>,
    /// Whether it is the own stream of a session, or a request.
    is_request: bool,
}

/// The guests of a connection.
#[derive(Drop)]
pub struct Guests {
    alloc: Global,
    /// What happened.
    pub log: Vec<String>,
    /// What is to be done.
    pub todo: VecDeque<Todo>,
    is_ready: bool,
    streams: BTreeMap<u64, Heard>,
}

impl Handler for Guests {
    fn event(&mut self, on: &mut Connections, event: Event<'_>) -> Result<()> {
        let id = event.stream;
        match event.kind {
            EventKind::Ready(_) => self.get_ready(),
            EventKind::Response(status, _) => self.note(id, "status", u64::from(status)),
            EventKind::NewStream(_) => self.begin_line(id, event.session),
            EventKind::Data(bytes) => self.keep(id, bytes.as_slice()),
            EventKind::End => self.end(id),
            EventKind::Datagram(bytes) => self.hear_datagram(id, bytes.as_slice()),
            EventKind::Reset(code) => self.hear_refusal(id, code),
            EventKind::Draining => self.leave(on.here(), id),
            EventKind::GoAway(first) => self.note_all("GOAWAY with ID", first),
            EventKind::Closed(_) => self.forget(id),
            EventKind::ConnectionClosed(code, _) => self.note_all("closed with code", code),
            _ => Ok(()),
        }
    }

    fn turn(&mut self, on: &mut Connections) -> Result<()> {
        if !self.is_ready {
            return Ok(());
        }
        for _todo in 0..self.todo.len() {
            if let Some(todo) = self.todo.pop_front() {
                self.act(on.here(), todo)?;
            }
        }
        Ok(())
    }
}

impl Guests {
    /// Creates a connection without guests.
    pub fn new(alloc: Global) -> Self {
        Guests {
            alloc,
            log: Vec::new(alloc),
            todo: VecDeque::new(alloc),
            is_ready: false,
            streams: BTreeMap::new(alloc),
        }
    }

    fn get_ready(&mut self) -> Result<()> {
        self.is_ready = true;
        Ok(())
    }

    /// Notes something of a stream.
    fn note(&mut self, id: u64, what: &str, number: u64) -> Result<()> {
        let line = format!(in self.alloc; "{}: {what} {number}", self.of(id))?;
        self.log.push(line)?;
        Ok(())
    }

    /// Notes something of the connection.
    fn note_all(&mut self, what: &str, number: u64) -> Result<()> {
        let line = format!(in self.alloc; "a connection: {what} {number}")?;
        self.log.push(line)?;
        Ok(())
    }

    fn hear_refusal(&mut self, id: u64, code: StreamCode) -> Result<()> {
        match code {
            StreamCode::Application(code) => self.note(id, "refused with code", u64::from(code)),
            StreamCode::Http(_) => Ok(()),
        }
    }

    fn hear_datagram(&mut self, session: u64, said: &[u8]) -> Result<()> {
        let (of, said) = (self.of(session), text(said));
        let line = format!(in self.alloc; "{of} hears in a datagram: {said}")?;
        self.log.push(line)?;
        Ok(())
    }

    /// Begins a line that a guest hears.
    fn begin_line(&mut self, id: u64, session: Option<u64>) -> Result<()> {
        match session {
            Some(session) => self.begin(id, self.of(session), false),
            None => Ok(()),
        }
    }

    fn forget(&mut self, id: u64) -> Result<()> {
        self.streams.remove(&id);
        Ok(())
    }

    fn act(&mut self, on: &mut Connection, todo: Todo) -> Result<()> {
        match todo {
            Todo::Join(name, path, origin) => self.join(on, name, path, origin),
            Todo::Say(name, kind, line) => self.say(on, name, kind, line),
            Todo::SayInDatagram(name, line) => {
                if let Some(session) = self.session_of(name) {
                    on.send_datagram(session, line.as_bytes())?;
                }
                Ok(())
            }
            Todo::Get(path) => self.get(on, path),
        }
    }

    /// Asks for a session.
    fn join(
        &mut self,
        on: &mut Connection,
        name: &'static str,
        path: &str,
        origin: &str,
    ) -> Result<()> {
        let mut list = fields::request(self.alloc, "CONNECT", "chat.example", path)?;
        list.append(b":protocol", b"webtransport")?;
        list.append(b"origin", origin.as_bytes())?;
        let id = on.request(&list, false)?;
        self.begin(id, name, true)
    }

    /// Says a line.
    fn say(
        &mut self,
        on: &mut Connection,
        name: &'static str,
        kind: StreamKind,
        line: &str,
    ) -> Result<()> {
        let Some(session) = self.session_of(name) else {
            return Ok(());
        };
        let id = on.open_stream(session, kind)?;
        on.send(id, line.as_bytes(), true)?;
        self.begin(id, name, false)
    }

    /// Asks for a page.
    fn get(&mut self, on: &mut Connection, path: &'static str) -> Result<()> {
        let list = fields::request(self.alloc, "GET", "chat.example", path)?;
        match on.request(&list, true) {
            Ok(id) => self.begin(id, path, true),
            Err(refused) => {
                let line = format!(in self.alloc; "{path} is not asked for: {refused}")?;
                self.log.push(line)?;
                Ok(())
            }
        }
    }

    /// Leaves, as the server asks.
    fn leave(&mut self, on: &mut Connection, session: u64) -> Result<()> {
        let line = format!(in self.alloc; "{} is asked to leave", self.of(session))?;
        self.log.push(line)?;
        on.close_session(session, 3, "good night")?;
        Ok(())
    }

    fn begin(&mut self, id: u64, of: &'static str, is_request: bool) -> Result<()> {
        let bytes = Vec::new(self.alloc);
        let heard = Heard {
            of,
            bytes,
            is_request,
        };
        self.streams.insert(id, heard)?;
        Ok(())
    }

    fn keep(&mut self, id: u64, bytes: &[u8]) -> Result<()> {
        if let Some(heard) = self.streams.get_mut(&id) {
            heard.bytes.extend_from_slice(bytes)?;
        }
        Ok(())
    }

    /// Notes what came on a stream that ended.
    fn end(&mut self, id: u64) -> Result<()> {
        let Some(heard) = self.streams.get(&id) else {
            return Ok(());
        };
        let (of, bytes) = (heard.of, heard.bytes.as_slice());
        let line = if heard.is_request {
            format!(in self.alloc; "{of}: {} bytes", bytes.len())?
        } else {
            format!(in self.alloc; "{of} hears: {}", text(bytes))?
        };
        self.log.push(line)?;
        Ok(())
    }

    /// Returns whose stream it is.
    fn of(&self, id: u64) -> &'static str {
        match self.streams.get(&id) {
            Some(heard) => heard.of,
            None => "nobody",
        }
    }

    /// Returns the session of a guest.
    fn session_of(&self, name: &'static str) -> Option<u64> {
        for (id, heard) in &self.streams {
            if heard.is_request && heard.of == name {
                return Some(*id);
            }
        }
        None
    }
}
