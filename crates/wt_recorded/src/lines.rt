//! The lines of what a connection tells and does.
use std::alloc::{AllocError, Global};
use vesgrauf::code::StreamCode;
use vesgrauf::event::{EventKind, Tunnel, Why};
use vesgrauf::output::Output;
use vesgrauf::{FieldList, PeerSettings};

/// The lines so far.
#[derive(Drop)]
pub struct Lines {
    alloc: Global,
    pub text: String,
    /// How many commands the connection has run.
    pub count: u64,
}

impl Lines {
    /// Creates the lines of nothing.
    pub fn new(alloc: Global) -> Self {
        Lines {
            alloc,
            text: String::new(alloc),
            count: 0,
        }
    }

    /// Begins the lines of a connection.
    pub fn begin(&mut self) -> Result<(), AllocError> {
        self.count = 0;
        self.text.clear();
        self.text.push_str("connection\n")
    }

    /// Appends the line of an event of the stream with this name, which belongs to this session.
    pub fn add(
        &mut self,
        name: u64,
        session: Option<u64>,
        kind: &EventKind<'_>,
    ) -> Result<(), AllocError> {
        write!(self.text, "{} ", self.count)?;
        match kind {
            EventKind::Ready(_) | EventKind::GoAway(_) | EventKind::ConnectionClosed(_, _) => {
                write!(self.text, "- ")?;
            }
            _ => write!(self.text, "{name} ")?,
        }
        match kind {
            EventKind::Request(list) | EventKind::Connect(Tunnel::Other, list) => {
                self.fields("request", list)?;
            }
            EventKind::Connect(Tunnel::Session, list) => self.fields("asked", list)?,
            EventKind::Interim(status, list) => {
                write!(self.text, "interim {status}")?;
                self.fields("", list)?;
            }
            EventKind::Response(status, list) => {
                write!(self.text, "response {status}")?;
                self.fields("", list)?;
            }
            EventKind::Trailers(list) => self.fields("trailers", list)?,
            EventKind::Data(bytes) => self.bytes("data", bytes.as_slice())?,
            EventKind::Datagram(bytes) => self.bytes("datagram", bytes.as_slice())?,
            EventKind::NewStream(_) => write!(self.text, "joined {}", session.unwrap_or(name))?,
            _ => self.words(kind)?,
        }
        writeln!(self.text, "")
    }

    /// Appends the words of an event without fields and bytes.
    fn words(&mut self, kind: &EventKind<'_>) -> Result<(), AllocError> {
        match kind {
            EventKind::Ready(settings) => self.values(*settings),
            EventKind::GoAway(first) => write!(self.text, "goaway {first}"),
            EventKind::ConnectionClosed(code, by_peer) => {
                write!(self.text, "over {code} {}", u32::from(*by_peer))
            }
            EventKind::End => write!(self.text, "end"),
            EventKind::Draining => write!(self.text, "draining"),
            EventKind::Reset(code) => write!(self.text, "reset {}", shown(*code)),
            EventKind::Stopped(code) => write!(self.text, "stopped {}", shown(*code)),
            EventKind::Closed(why) => self.closed(why),
            _ => write!(self.text, "unexpected"),
        }
    }

    /// Appends why a stream is over.
    fn closed(&mut self, why: &Why) -> Result<(), AllocError> {
        match why {
            Why::Done | Why::Reset => write!(self.text, "done"),
            Why::Session(close) => {
                write!(self.text, "closed {}", close.code())?;
                self.bytes("", close.reason())
            }
            Why::SessionGone => write!(self.text, "gone"),
            Why::Malformed(rule) => write!(self.text, "malformed {rule}"),
            Why::TooLarge => write!(self.text, "large"),
            Why::Fault(fault) => write!(self.text, "fault {}", fault.code().number().into_inner()),
            Why::Unprocessed => write!(self.text, "unprocessed"),
            Why::ConnectionClosed => write!(self.text, "broken"),
        }
    }

    /// Appends a name and fields.
    fn fields(&mut self, name: &str, list: &FieldList) -> Result<(), AllocError> {
        self.text.push_str(name)?;
        for field in list.iter() {
            let name = hex::encode(self.alloc, field.name)?;
            let value = hex::encode(self.alloc, field.value)?;
            write!(self.text, " {name}:{value}")?;
        }
        Ok(())
    }

    /// Appends a name and bytes.
    fn bytes(&mut self, name: &str, bytes: &[u8]) -> Result<(), AllocError> {
        if bytes.is_empty() {
            return write!(self.text, "{name} -");
        }
        let digits = hex::encode(self.alloc, bytes)?;
        write!(self.text, "{name} {digits}")
    }

    /// Appends the values of SETTINGS.
    fn values(&mut self, settings: PeerSettings) -> Result<(), AllocError> {
        write!(self.text, "settings {}", settings.qpack_max_table_capacity)?;
        match settings.max_field_section_size {
            Some(size) => write!(self.text, " {size}")?,
            None => write!(self.text, " none")?,
        }
        write!(self.text, " {}", settings.qpack_blocked_streams)?;
        for is_on in [
            settings.enable_connect_protocol,
            settings.h3_datagram,
            settings.enable_webtransport,
        ] {
            write!(self.text, " {}", u32::from(is_on))?;
        }
        write!(self.text, " {}", settings.webtransport_max_sessions)?;
        write!(self.text, " {}", settings.wt_max_sessions)
    }

    /// Appends the line of what QUIC is to do, for the stream with this name.
    pub fn output(&mut self, name: u64, output: Output) -> Result<(), AllocError> {
        match output {
            Output::Open { .. } => Ok(()),
            Output::Reset(_, code) => self.number(name, "resets", code),
            Output::StopSending(_, code) => self.number(name, "stops", code),
            Output::Credit(_, len) => self.number(name, "credit", len as u64),
            Output::Read(_, _) | Output::Prioritize(_, _) => Ok(()),
            Output::Close(code) => writeln!(self.text, "{} - closes {code}", self.count),
        }
    }

    /// Appends the line of bytes that are sent on the decoder stream.
    pub fn decoder(&mut self, bytes: &[u8]) -> Result<(), AllocError> {
        write!(self.text, "{} - ", self.count)?;
        self.bytes("decoder", bytes)?;
        writeln!(self.text, "")
    }

    /// Appends the line of how many bytes wait at the end.
    pub fn held(&mut self, len: usize) -> Result<(), AllocError> {
        writeln!(self.text, "{} - held {len}", self.count)
    }

    /// Appends a line of a word and a number.
    pub fn number(&mut self, name: u64, word: &str, number: u64) -> Result<(), AllocError> {
        writeln!(self.text, "{} {name} {word} {number}", self.count)
    }
}

/// Returns a code as its side says it: HTTP/3's, or the application's.
fn shown(code: StreamCode) -> u64 {
    match code {
        StreamCode::Http(code) => code.number().into_inner(),
        StreamCode::Application(code) => u64::from(code),
    }
}
