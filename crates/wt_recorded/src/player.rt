//! An end that a recorded peer sends to.
use crate::command::{Command, Supports};
use crate::lines::Lines;
use crate::plan::{Piece, Plan};
use anyhow::{Result, bail};
use std::alloc::Global;
use vesgrauf::config::Config;
use vesgrauf::connection::Connection;
use vesgrauf::event::{Event, EventKind};
use vesgrauf::input::Input;
use vesgrauf::output::{Output, StreamKind};
use vesgrauf::refused::Refused;
use vesgrauf::{Code, FieldList, Side};

/// The name of a stream of which nothing comes.
const OTHER: u64 = 1 << 62;

/// The most turns of a loop.
const TURNS: u32 = 10_000_000;

/// Returns what an end of this side announces, with a dynamic table of this capacity. Whatever comes may wait.
pub fn config(side: Side, table: u32, supports: Supports) -> Config {
    let config = match side {
        Side::Client => Config::client(),
        Side::Server => Config::server(),
    };
    Config {
        webtransport: supports == Supports::Sessions,
        datagrams: supports == Supports::Sessions,
        extended_connect: supports != Supports::Nothing,
        qpack_max_table_capacity: table,
        qpack_blocked_streams: u16::MAX,
        encoder_table_capacity: 0,
        max_resets: u64::MAX,
        max_streams: u64::MAX,
        max_unopened: u64::MAX,
        receive_buffer: usize::MAX,
        receive_buffer_all: usize::MAX,
        ..config
    }
}

/// What plays a script to a connection.
#[derive(Drop)]
pub struct Player {
    alloc: Global,
    plan: Plan,
    pub lines: Lines,
}

impl Player {
    /// Creates a player for an end of this side.
    pub fn new(alloc: Global, side: Side, lines: Lines) -> Self {
        Player {
            alloc,
            plan: Plan::new(alloc, side),
            lines,
        }
    }

    /// Runs a command, and appends the lines of what came of it.
    pub fn run(&mut self, on: &mut Connection, command: Command) -> Result<()> {
        match command {
            Command::Begin(_, _, _) => {}
            Command::Request(id, list) => self.plan.requests.push_back((id, list))?,
            Command::Open(name, session) => self.plan.streams.push_back((name, session))?,
            Command::Bytes(name, bytes, fin) => self.plan.arrive(Piece { name, bytes, fin })?,
            Command::Reset(name, code) => {
                let id = self.plan.id(name);
                self.hear(on, Input::stream_reset(id, code))?;
            }
            Command::Answer(id, status) => {
                self.plan.answers.insert(id, status)?;
                self.answer(on, id)?;
            }
            Command::Datagram(bytes) => {
                self.hear(on, Input::datagram(bytes.as_slice()))?;
            }
            Command::Stop(name, code) => {
                let id = self.plan.id(name);
                self.hear(on, Input::stop_sending(id, code))?;
            }
            Command::Abandon(name) => {
                let code = Code::H3_REQUEST_CANCELLED.into();
                let id = self.plan.id(name);
                accept(on.stop_sending(id, code))?;
            }
        }
        self.open(on)?;
        self.play_pieces(on)?;
        self.hear(on, Input::none())?;
        self.lines.count = self.lines.count.saturating_add(1);
        Ok(())
    }

    /// Plays the pieces that may come now.
    fn play_pieces(&mut self, on: &mut Connection) -> Result<()> {
        for _piece in 0..TURNS {
            let Some(piece) = self.plan.pieces.pop_front() else {
                break;
            };
            let id = self.plan.id(piece.name);
            let bytes = piece.bytes.as_slice();
            let credit = self.hear(on, Input::stream(id, bytes, piece.fin))?;
            if credit != bytes.len() {
                self.lines.number(piece.name, "credit", credit as u64)?;
            }
        }
        Ok(())
    }

    /// Takes in what QUIC reports. Returns by how much its windows are extended.
    fn hear(&mut self, on: &mut Connection, mut input: Input<'_>) -> Result<usize> {
        for _event in 0..TURNS {
            if let Some(event) = on.next_event(&mut input)? {
                let name = self.plan.name(event.stream);
                self.lines.add(name, event.session, &event.kind)?;
                self.follow(on, event)?;
                self.open(on)?;
                self.settle(on)?;
            } else if !self.settle(on)? {
                return Ok(input.credit());
            }
        }
        bail!("the events do not end");
    }

    /// Does what follows from an event: answers a request, and ends the own half of a stream that ended.
    fn follow(&mut self, on: &mut Connection, event: Event<'_>) -> Result<()> {
        let id = event.stream;
        match event.kind {
            EventKind::Request(list) | EventKind::Connect(_, list) => {
                let connects = list.first(b":method") == Some(b"CONNECT");
                self.plan.unanswered.insert(id, connects)?;
                self.answer(on, id)
            }
            EventKind::End => accept(on.finish(id)),
            EventKind::Reset(code) => accept(on.reset(id, code)),
            _ => Ok(()),
        }
    }

    /// Answers the request on a stream, if it came and its answer is known.
    fn answer(&mut self, on: &mut Connection, id: u64) -> Result<()> {
        let Some(status) = self.plan.answers.get(&id).copied() else {
            return Ok(());
        };
        let Some(connects) = self.plan.unanswered.remove(&id) else {
            return Ok(());
        };
        let list = FieldList::response(self.alloc, status)?;
        let number = status.into_inner();
        // (by the end of a response that refuses a CONNECT, what the peer sends on would be stopped)
        accept(on.respond(id, &list, !connects))?;
        if connects {
            self.lines.number(id, "answered", u64::from(number))?;
        }
        Ok(())
    }

    /// Sends the requests and opens the streams that are allowed now.
    fn open(&mut self, on: &mut Connection) -> Result<()> {
        for _request in 0..self.plan.requests.len() {
            let Some((id, list)) = self.plan.requests.pop_front() else {
                break;
            };
            if !self.request(on, id, &list)? {
                self.plan.requests.push_front((id, list))?;
                break;
            }
        }
        for _stream in 0..self.plan.streams.len() {
            let Some((name, session)) = self.plan.streams.pop_front() else {
                break;
            };
            match on.open_stream(session, StreamKind::Bidirectional) {
                Ok(id) => self.plan.opened(name, id)?,
                Err(Refused::NotOpen | Refused::SessionGone | Refused::Closed) => {
                    self.plan.streams.push_back((name, session))?;
                }
                Err(refused) => bail!("a stream of session {session} is refused: {refused}"),
            }
        }
        Ok(())
    }

    /// Sends a request on the stream with this ID. Returns whether it is sent: one for a session is not before SETTINGS
    /// came.
    fn request(&mut self, on: &mut Connection, id: u64, list: &FieldList) -> Result<bool> {
        self.fill(on, id)?;
        let content = content_of(self.alloc, list)?;
        let fin = content.is_empty() && list.first(b":method") != Some(b"CONNECT");
        match on.request(list, fin) {
            Ok(sent) if sent == id => {
                if !content.is_empty() {
                    on.send(id, content.as_slice(), true)?;
                }
                self.plan.next = id.saturating_add(4);
                self.plan.opened(id, id)?;
                Ok(true)
            }
            Err(Refused::NotReady | Refused::Closed) => Ok(false),
            Ok(sent) => bail!("request {id} is sent on stream {sent}"),
            Err(refused) => bail!("request {id} is refused: {refused}"),
        }
    }

    /// Sends other requests on the streams before this one whose IDs streams of sessions had.
    fn fill(&mut self, on: &mut Connection, id: u64) -> Result<()> {
        let list = FieldList::from_fields(
            self.alloc,
            &[
                (b":method", b"GET"),
                (b":scheme", b"https"),
                (b":authority", b"a"),
                (b":path", b"/"),
            ],
        )?;
        for _other in 0..TURNS {
            if self.plan.next >= id {
                break;
            }
            match on.request(&list, true) {
                Ok(sent) => {
                    self.plan.opened(OTHER, sent)?;
                    self.plan.next = sent.saturating_add(4);
                }
                Err(Refused::Closed) => break,
                Err(refused) => bail!("a request before {id} is refused: {refused}"),
            }
        }
        Ok(())
    }

    /// Does what QUIC is to do. Returns whether there was anything.
    fn settle(&mut self, on: &mut Connection) -> Result<bool> {
        for turn in 0..TURNS {
            if let Some(output) = on.output() {
                self.do_output(on, output)?;
            } else if let Some(next) = on.next_send() {
                let (id, len) = (next.id, next.bytes.len().saturating_add(next.more.len()));
                if id % 4 > 1 && id > 3 {
                    self.lines.decoder(next.bytes)?;
                }
                on.sent(id, len)?;
            } else {
                return Ok(turn > 0);
            }
        }
        bail!("what QUIC is to do does not end");
    }

    /// Does one thing that QUIC is to do.
    fn do_output(&mut self, on: &mut Connection, output: Output) -> Result<()> {
        match output {
            Output::Open { id, .. } => return Ok(on.opened(id)?),
            Output::Reset(id, _) | Output::StopSending(id, _) | Output::Credit(id, _) => {
                self.lines.output(self.plan.name(id), output)?;
            }
            Output::Read(_, _) | Output::Prioritize(_, _) => {}
            Output::Close(_) => self.lines.output(0, output)?,
        }
        Ok(on.output_taken()?)
    }

    /// Appends how many bytes wait, if a connection was begun.
    pub fn finish(&mut self, on: &Connection) -> Result<()> {
        if self.lines.text.is_empty() {
            return Ok(());
        }
        Ok(self.lines.held(on.stats().held)?)
    }
}

/// Returns content of the length that a request announces.
fn content_of(alloc: Global, list: &FieldList) -> Result<Vec<u8>> {
    let mut content = Vec::new(alloc);
    if let Some(length) = list.first(b"content-length") {
        content.resize(str::from_utf8(length)?.parse::<usize>()?, 0)?;
    }
    Ok(content)
}

/// Accepts that a call comes too late, or that a message may not end.
fn accept(result_of: Result<(), Refused>) -> Result<()> {
    match result_of {
        Err(Refused::Memory) => bail!("no memory"),
        _ => Ok(()),
    }
}
