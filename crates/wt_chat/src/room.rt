//! The server: a room whose members hear each other.
use anyhow::Result;
use std::alloc::Global;
use std::collections::BTreeMap;
use test_network::connections::Connections;
use test_network::handler::Handler;
use vesgrauf::connection::Connection;
use vesgrauf::event::{Event, EventKind, Tunnel, Why};
use vesgrauf::output::StreamKind;
use vesgrauf::refused::Refused;
use vesgrauf::{FieldList, Priority, Side, StatusCode};

/// The most members, and the most lines that a member has not taken: those of all members are fewer than the
/// `max_unopened` of a connection.
const MAX_MEMBERS: usize = 3;

const MAX_PENDING: usize = 30;

/// The longest line, in bytes, and the code with which a longer one is stopped.
const MAX_LINE: usize = 500;

pub const TOO_LONG: u32 = 1;

/// The code with which a session is closed whose member does not take its lines.
const TOO_SLOW: u32 = 2;

/// Where the pages come from that may open sessions.
const ORIGIN: &[u8] = b"https://chat.example";

/// How many pieces the large answer has, and what each of them is.
const PIECES: u32 = 256;

static PIECE: [u8; 4096] = [0x62; 4096];

/// A stream of a connection. The own stream of a session names its member.
#[derive(Clone, Copy, Debug, PartialEq, Eq, PartialOrd, Ord)]
struct Place {
    peer: usize,
    stream: u64,
}

/// A member, and how many lines are on their way to it.
#[derive(Drop)]
struct Member {
    name: String,
    pending: usize,
}

/// A room.
#[derive(Drop)]
pub struct Room {
    alloc: Global,
    /// What happened.
    pub log: Vec<String>,
    members: BTreeMap<Place, Member>,
    /// What came of each line.
    lines: BTreeMap<Place, Vec<u8>>,
    /// How many pieces are left of each large answer.
    downloads: BTreeMap<Place, u32>,
}

impl Handler for Room {
    fn event(&mut self, on: &mut Connections, event: Event<'_>) -> Result<()> {
        let is_own = event.is_own(Side::Server);
        let Event {
            stream,
            session,
            kind,
            ..
        } = event;
        let peer = on.peer();
        let place = Place { peer, stream };
        match kind {
            EventKind::Request(list) => self.answer(on.here(), place, &list),
            EventKind::Connect(Tunnel::Session, list) => self.enter(on.here(), place, &list),
            EventKind::Connect(Tunnel::Other, _) => self.respond(
                on.here(),
                stream,
                StatusCode::NOT_IMPLEMENTED,
                true,
            ),
            EventKind::NewStream(_) => self.begin_line(place),
            EventKind::Data(bytes) => self.hear(on.here(), place, bytes.as_slice()),
            EventKind::End => self.end_line(on, place, session),
            EventKind::Datagram(bytes) => self.hear_datagram(on, place, bytes.as_slice()),
            EventKind::Writable => self.download(on.here(), place),
            EventKind::Stopped(_) => self.stop_download(place),
            EventKind::Closed(why) => self.closed(place, session, is_own, &why),
            EventKind::Idle => self.note("nothing is left on a connection"),
            _ => Ok(()),
        }
    }
}

/// Requests.
impl Room {
    /// Creates a room without members.
    pub fn new(alloc: Global) -> Self {
        Room {
            alloc,
            log: Vec::new(alloc),
            members: BTreeMap::new(alloc),
            lines: BTreeMap::new(alloc),
            downloads: BTreeMap::new(alloc),
        }
    }

    /// Answers a request for a page.
    fn answer(&mut self, on: &mut Connection, place: Place, list: &FieldList) -> Result<()> {
        match list.first(b":path") {
            Some(b"/") => self.respond(on, place.stream, StatusCode::OK, true),
            Some(b"/big") => {
                self.respond(on, place.stream, StatusCode::OK, false)?;
                let behind = Priority {
                    urgency: 6,
                    incremental: false,
                };
                on.prioritize(place.stream, behind)?;
                self.downloads.insert(place, PIECES)?;
                self.download(on, place)
            }
            _ => self.respond(on, place.stream, StatusCode::NOT_FOUND, true),
        }
    }

    /// Sends pieces of a large answer, until there is no room.
    fn download(&mut self, on: &mut Connection, place: Place) -> Result<()> {
        let Some(left) = self.downloads.get_mut(&place) else {
            return Ok(());
        };
        for _piece in 0..PIECES {
            *left = left.saturating_sub(1);
            let is_last = *left == 0;
            let has_room = on.send(place.stream, &PIECE, is_last)?;
            if is_last {
                self.downloads.remove(&place);
                return Ok(());
            }
            if !has_room {
                return Ok(());
            }
        }
        Ok(())
    }

    fn stop_download(&mut self, place: Place) -> Result<()> {
        self.downloads.remove(&place);
        Ok(())
    }

    /// Answers a request for a session.
    fn enter(&mut self, on: &mut Connection, place: Place, list: &FieldList) -> Result<()> {
        let path = text(list.first(b":path").unwrap_or(b""));
        let (page, query) = path.split_once('?').unwrap_or((path, ""));
        let name = query.strip_prefix("name=").unwrap_or("");
        let status = if page != "/chat" {
            StatusCode::NOT_FOUND
        } else if list.first(b"origin") != Some(ORIGIN) {
            StatusCode::FORBIDDEN
        } else if name.is_empty() {
            StatusCode::BAD_REQUEST
        } else if self.members.len() >= MAX_MEMBERS {
            StatusCode::SERVICE_UNAVAILABLE
        } else {
            return self.admit(on, place, name);
        };
        self.respond(on, place.stream, status, true)
    }

    /// Admits a member.
    fn admit(&mut self, on: &mut Connection, place: Place, name: &str) -> Result<()> {
        self.respond(on, place.stream, StatusCode::OK, false)?;
        self.log.push(format!(in self.alloc; "{name} came")?)?;
        let member = Member {
            name: String::from_str(self.alloc, name)?,
            pending: 0,
        };
        self.members.insert(place, member)?;
        Ok(())
    }

    fn respond(&self, on: &mut Connection, id: u64, status: StatusCode, fin: bool) -> Result<()> {
        let list = FieldList::response(self.alloc, status)?;
        on.respond(id, &list, fin)?;
        Ok(())
    }

    fn note(&mut self, line: &str) -> Result<()> {
        self.log.push(String::from_str(self.alloc, line)?)?;
        Ok(())
    }
}

/// Lines.
impl Room {
    fn begin_line(&mut self, place: Place) -> Result<()> {
        self.lines.insert(place, Vec::new(self.alloc))?;
        Ok(())
    }

    /// Takes bytes of a line, if it is not too long.
    fn hear(&mut self, on: &mut Connection, place: Place, bytes: &[u8]) -> Result<()> {
        let Some(line) = self.lines.get_mut(&place) else {
            return Ok(());
        };
        if line.len().saturating_add(bytes.len()) <= MAX_LINE {
            line.extend_from_slice(bytes)?;
            return Ok(());
        }
        self.lines.remove(&place);
        on.stop_sending(place.stream, TOO_LONG.into())?;
        on.reset(place.stream, TOO_LONG.into())?;
        Ok(())
    }

    /// Passes a line on. On a stream in both directions it is answered.
    fn end_line(&mut self, on: &mut Connections, place: Place, session: Option<u64>) -> Result<()> {
        let (Some(line), Some(session)) = (self.lines.remove(&place), session) else {
            return Ok(());
        };
        let from = Place {
            peer: place.peer,
            stream: session,
        };
        let heard = self.broadcast(on, from, line.as_slice(), false)?;
        if StreamKind::of(place.stream) == StreamKind::Bidirectional {
            let answer = format!(in self.alloc; "heard by {heard}")?;
            on.here().send(place.stream, answer.as_bytes(), true)?;
        }
        Ok(())
    }

    /// Passes a datagram on.
    fn hear_datagram(&mut self, on: &mut Connections, from: Place, bytes: &[u8]) -> Result<()> {
        self.broadcast(on, from, bytes, true)?;
        Ok(())
    }

    /// Passes what a member says to all others. Returns how many there are.
    fn broadcast(
        &mut self,
        on: &mut Connections,
        from: Place,
        said: &[u8],
        is_datagram: bool,
    ) -> Result<usize> {
        let Some(member) = self.members.get(&from) else {
            return Ok(0);
        };
        let line = format!(in self.alloc; "{}: {}", member.name, text(said))?;
        let mut heard: usize = 0;
        for (place, member) in self.members.iter_mut() {
            if *place == from {
                continue;
            }
            if let Some(on) = on.of(place.peer) {
                let told = member.tell(on, place.stream, line.as_bytes(), is_datagram);
                Refused::unless_gone(told)?;
            }
            heard = heard.saturating_add(1);
        }
        Ok(heard)
    }

    /// Forgets a stream that is over. The own stream of a session is that of a member.
    fn closed(
        &mut self,
        place: Place,
        session: Option<u64>,
        is_own: bool,
        why: &Why,
    ) -> Result<()> {
        self.lines.remove(&place);
        self.downloads.remove(&place);
        if let Some(member) = self.members.remove(&place) {
            let name = member.name;
            let line = match why.session_close() {
                Some((code, reason)) => {
                    format!(in self.alloc; "{name} left with code {code}: {reason}")?
                }
                None => format!(in self.alloc; "{name} is gone")?,
            };
            self.log.push(line)?;
        } else if let (true, Some(session)) = (is_own, session) {
            let from = Place {
                peer: place.peer,
                stream: session,
            };
            if let Some(member) = self.members.get_mut(&from) {
                member.pending = member.pending.saturating_sub(1);
            }
        }
        Ok(())
    }
}

impl Member {
    /// Sends what another member says. A member that does not take its lines is dismissed.
    fn tell(
        &mut self,
        on: &mut Connection,
        session: u64,
        line: &[u8],
        is_datagram: bool,
    ) -> Result<(), Refused> {
        if is_datagram {
            on.send_datagram(session, line)?;
            return Ok(());
        }
        if self.pending >= MAX_PENDING {
            return on.close_session(session, TOO_SLOW, "you are too slow");
        }
        let stream = on.open_stream(session, StreamKind::Unidirectional)?;
        self.pending = self.pending.saturating_add(1);
        on.send(stream, line, true)?;
        Ok(())
    }
}

pub fn text(bytes: &[u8]) -> &str {
    str::from_utf8(bytes).unwrap_or("no text")
}
