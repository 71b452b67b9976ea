//! A client: it asks for what the server knows, and for what it does not.
use anyhow::Result;
use std::alloc::Global;
use std::collections::BTreeMap;
use test_network::connections::Connections;
use test_network::handler::Handler;
use vesgrauf::connection::Connection;
use vesgrauf::event::{Event, EventKind};
use vesgrauf::fields;
use vesgrauf::output::{Shutdown, StreamKind};

/// A stream, and what came on it.
#[derive(Drop)]
struct Stream {
    name: &'static str,
    bytes: Vec<u8>,
}

/// A client that leaves once all of its streams are over.
#[derive(Drop)]
pub struct Client {
    alloc: Global,
    /// What came.
    pub lines: Vec<String>,
    streams: BTreeMap<u64, Stream>,
    /// The stream of the content, and how many thousands of bytes are left of it.
    upload: u64,
    left: u32,
    /// How many streams and datagrams of the session are to come back.
    echoes: u32,
}

impl Handler for Client {
    fn event(&mut self, on: &mut Connections, event: Event<'_>) -> Result<()> {
        let on = on.here();
        let id = event.stream;
        match event.kind {
            EventKind::Ready(_) => self.begin(on),
            EventKind::Response(status, _) => self.answered(on, id, status),
            EventKind::NewStream(_) => self.begin_stream(id, "a stream back"),
            EventKind::Data(bytes) => self.keep(id, bytes.as_slice()),
            EventKind::End => self.ended(on, id, event.session),
            EventKind::Datagram(bytes) => {
                self.note("a datagram back", text(bytes.as_slice()))?;
                self.came(on, id)
            }
            EventKind::Writable if id == self.upload => self.send_content(on),
            EventKind::Closed(_) => self.closed(on, id),
            EventKind::Idle => self.note("the connection", "idle"),
            _ => Ok(()),
        }
    }
}

impl Client {
    /// Creates a client that asked for nothing.
    pub fn new(alloc: Global) -> Self {
        Client {
            alloc,
            lines: Vec::new(alloc),
            streams: BTreeMap::new(alloc),
            upload: 0,
            left: 100,
            echoes: 3,
        }
    }

    /// Asks, once SETTINGS of the server came.
    fn begin(&mut self, on: &mut Connection) -> Result<()> {
        self.upload = self.ask(on, "POST /echo", "POST", "/echo", false)?;
        self.ask(on, "GET /", "GET", "/", true)?;
        self.ask(on, "GET /none", "GET", "/none", true)?;
        let unread = self.ask(on, "POST /none", "POST", "/none", false)?;
        on.send(unread, &[0x62; 3000], true)?;
        self.ask_tunnel(on, "session", "/echo", "webtransport")?;
        self.ask_tunnel(on, "session at /none", "/none", "webtransport")?;
        self.ask_tunnel(on, "tunnel", "/echo", "websocket")?;
        self.send_content(on)
    }

    /// Sends a request.
    fn ask(
        &mut self,
        on: &mut Connection,
        name: &'static str,
        method: &str,
        path: &str,
        fin: bool,
    ) -> Result<u64> {
        let list = fields::request(self.alloc, method, "example.com", path)?;
        let id = on.request(&list, fin)?;
        self.begin_stream(id, name)?;
        Ok(id)
    }

    /// Sends a request for a session, or for another tunnel.
    fn ask_tunnel(
        &mut self,
        on: &mut Connection,
        name: &'static str,
        path: &str,
        protocol: &str,
    ) -> Result<()> {
        let mut list = fields::request(self.alloc, "CONNECT", "example.com", path)?;
        list.append(b":protocol", protocol.as_bytes())?;
        let id = on.request(&list, false)?;
        self.begin_stream(id, name)
    }

    /// Sends content, until there is no room.
    fn send_content(&mut self, on: &mut Connection) -> Result<()> {
        for _piece in 0..self.left {
            self.left = self.left.saturating_sub(1);
            if !on.send(self.upload, &[0x61; 1000], self.left == 0)? {
                break;
            }
        }
        Ok(())
    }

    /// Notes a response, and uses the session that it opens.
    fn answered(&mut self, on: &mut Connection, id: u64, status: u32) -> Result<()> {
        let name = self.name(id);
        let line = format!(in self.alloc; "{name}: status {status}")?;
        self.lines.push(line)?;
        if name != "session" {
            return Ok(());
        }
        let both = on.open_stream(id, StreamKind::Bidirectional)?;
        self.begin_stream(both, "a stream in both directions")?;
        on.send(both, b"there and back", true)?;
        let one = on.open_stream(id, StreamKind::Unidirectional)?;
        self.begin_stream(one, "a stream in one direction")?;
        on.send(one, b"there, and back on another", true)?;
        on.send_datagram(id, b"a datagram")?;
        Ok(())
    }

    /// Counts a stream or a datagram of the session, which is closed after the last one.
    fn came(&mut self, on: &mut Connection, session: u64) -> Result<()> {
        self.echoes = self.echoes.saturating_sub(1);
        if self.echoes == 0 {
            on.close_session(session, 7, "bye")?;
        }
        Ok(())
    }

    /// Notes the end of a stream.
    fn ended(&mut self, on: &mut Connection, id: u64, session: Option<u64>) -> Result<()> {
        if let Some(stream) = self.streams.get(&id) {
            let (name, bytes) = (stream.name, stream.bytes.as_slice());
            let line = if bytes.len() < 100 {
                format!(in self.alloc; "{name}: {}, and its end", text(bytes))?
            } else {
                format!(in self.alloc; "{name}: {} bytes, and its end", bytes.len())?
            };
            self.lines.push(line)?;
        }
        match session {
            Some(session) if session != id => self.came(on, session),
            _ => Ok(()),
        }
    }

    /// Forgets a stream that is closed. After the last one the client leaves.
    fn closed(&mut self, on: &mut Connection, id: u64) -> Result<()> {
        self.streams.remove(&id);
        if self.streams.is_empty() {
            on.shutdown(Shutdown::Final)?;
        }
        Ok(())
    }

    fn begin_stream(&mut self, id: u64, name: &'static str) -> Result<()> {
        let bytes = Vec::new(self.alloc);
        self.streams.insert(id, Stream { name, bytes })?;
        Ok(())
    }

    fn keep(&mut self, id: u64, bytes: &[u8]) -> Result<()> {
        if let Some(stream) = self.streams.get_mut(&id) {
            stream.bytes.extend_from_slice(bytes)?;
        }
        Ok(())
    }

    fn name(&self, id: u64) -> &'static str {
        match self.streams.get(&id) {
            Some(stream) => stream.name,
            None => "an unknown stream",
        }
    }

    fn note(&mut self, name: &str, text: &str) -> Result<()> {
        let line = format!(in self.alloc; "{name}: {text}")?;
        self.lines.push(line)?;
        Ok(())
    }
}

fn text(bytes: &[u8]) -> &str {
    str::from_utf8(bytes).unwrap_or("no text")
}
