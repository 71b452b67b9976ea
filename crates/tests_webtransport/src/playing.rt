//! Reading a stream of a connection piece by piece, and the text of its events.
use std::alloc::{AllocError, Global};
use wtp_connection::stream::Purpose;
use wtp_frames::endpoint::{Endpoint, Side};
use wtp_messages::response::Asked;
use wtp_webtransport::connection::Connection;
use wtp_webtransport::event::{Event, HeadersKind, Received, Waits};
use wtp_webtransport::fields::Fields;
use wtp_webtransport::stream::Stream;

/// What comes on a stream.
#[derive(Clone, Copy)]
pub(crate) enum Case {
    /// A request, at a server.
    Request,
    /// The response to a request that asked for this.
    Response(Asked),
    /// A request, at a server that answers it with this status.
    Answered(u32),
    /// What follows [`REQUEST`], at a server with WebTransport that answers it with this status, after
    /// SETTINGS of the client.
    Session(u32),
    /// The same before its SETTINGS.
    Early(u32),
    /// A request for a session and what follows it, at the same server.
    Recorded(u32),
}

impl Case {
    /// Returns what comes on the stream before the bytes of a row.
    pub(crate) fn prefix(self) -> &'static [u8] {
        match self {
            Case::Session(_) | Case::Early(_) => REQUEST.as_slice(),
            _ => &[],
        }
    }
}

/// CONNECT https://a/ for a session, in a HEADERS frame.
pub(crate) static REQUEST: [u8; 34] = [
    0x01, 0x20, 0x00, 0x00, 0xcf, 0xd7, 0xc1, 0x50, 0x01, 0x61, 0x27, 0x02, 0x3a, 0x70, 0x72, 0x6f,
    0x74, 0x6f, 0x63, 0x6f, 0x6c, 0x0c, 0x77, 0x65, 0x62, 0x74, 0x72, 0x61, 0x6e, 0x73, 0x70, 0x6f,
    0x72, 0x74,
];

/// The control stream of a client with WebTransport, as Chromium 156 sent it.
pub(crate) const CONTROL: [u8; 63] = [
    0x00, 0x04, 0x32, 0x01, 0x80, 0x01, 0x00, 0x00, 0x06, 0x80, 0x00, 0x40, 0x00, 0x07, 0x40, 0x64,
    0x33, 0x01, 0x80, 0xff, 0xd2, 0x77, 0x01, 0xab, 0x60, 0x37, 0x42, 0x01, 0xc0, 0x00, 0x00, 0x00,
    0xc6, 0x71, 0x70, 0x6a, 0x10, 0xc0, 0x00, 0x00, 0x18, 0x89, 0xc2, 0x49, 0xb7, 0xc0, 0x00, 0x00,
    0x00, 0xb6, 0x10, 0xa4, 0xb3, 0xc0, 0x00, 0x00, 0x14, 0x8d, 0x8f, 0xcb, 0xdc, 0x01, 0xcd,
];

/// Reads the control stream of a client.
pub(crate) fn configure(connection: &mut Connection, fields: &mut Fields) {
    let mut control = connection.accept(2);
    let mut start: usize = 0;
    for _turn in 0..9u32 {
        let rest = CONTROL.get(start..).unwrap_or(&[]);
        let received = connection.receive(&mut control, rest, false, fields);
        start = start.saturating_add(received.consumed);
    }
}

/// Returns a connection of a server, with WebTransport or without.
pub(crate) fn server(webtransport: bool) -> Connection {
    let mut endpoint = Endpoint::new(Side::Server);
    endpoint.webtransport = webtransport;
    endpoint.datagrams = webtransport;
    Connection::new(endpoint, true)
}

/// A stream that is read, and the text of its events.
#[derive(Drop)]
struct Player {
    text: String,
    /// How many bytes of DATA came since the last other event.
    data: usize,
    /// How many bytes are consumed.
    start: usize,
}

impl Player {
    /// Appends the text of an event. Returns whether more bytes are needed.
    fn take(&mut self, received: &Received<'_>) -> Result<bool, AllocError> {
        self.start = self.start.saturating_add(received.consumed);
        if let Event::Data(piece) | Event::StreamData(piece) = &received.event {
            self.data = self.data.saturating_add(piece.len());
            return Ok(false);
        }
        if matches!(received.event, Event::More | Event::Skipped) {
            return Ok(matches!(received.event, Event::More));
        }
        self.flush()?;
        self.add(&received.event)?;
        Ok(false)
    }

    /// Appends how many bytes of DATA came.
    fn flush(&mut self) -> Result<(), AllocError> {
        if self.data > 0 {
            let data = self.data;
            self.data = 0;
            write!(self.text, "data {data}; ")?;
        }
        Ok(())
    }

    /// Appends the text of another event.
    fn add(&mut self, event: &Event<'_>) -> Result<(), AllocError> {
        match event {
            Event::Opened(Purpose::Message) => Ok(()),
            Event::Opened(_) => write!(self.text, "opened; "),
            Event::Headers(HeadersKind::Request, fields) => {
                let len = fields.len();
                write!(self.text, "request {len}; ")
            }
            Event::Headers(HeadersKind::Interim(status), _) => {
                write!(self.text, "interim {status}; ")
            }
            Event::Headers(HeadersKind::Response(status), _) => {
                write!(self.text, "response {status}; ")
            }
            Event::Headers(HeadersKind::Trailers, _) => write!(self.text, "trailers; "),
            Event::SessionRequested(fields) => {
                let len = fields.len();
                write!(self.text, "session requested {len}; ")
            }
            Event::SessionReady(status, _) => write!(self.text, "session ready {status}; "),
            Event::Rejected(status, _) => write!(self.text, "rejected {status}; "),
            Event::SessionClosed(close) => {
                let code = close.code();
                let reason = str::from_utf8(close.reason()).unwrap_or("not UTF-8");
                write!(self.text, "session closed {code} {reason}; ")
            }
            Event::SessionLost => write!(self.text, "session lost; "),
            Event::Datagram(payload) => {
                let text = str::from_utf8(payload.as_slice()).unwrap_or("not UTF-8");
                write!(self.text, "datagram {text}; ")
            }
            Event::Draining => write!(self.text, "draining; "),
            Event::Waits(Waits::Settings) => write!(self.text, "waits for settings; "),
            Event::TooLarge(_) => write!(self.text, "too large; "),
            Event::Malformed(rule) => write!(self.text, "malformed: {rule}; "),
            Event::StreamError(fault) => {
                let code = fault.code().number().into_inner();
                write!(self.text, "stream error {code}; ")
            }
            Event::ConnectionError(fault) => {
                let code = fault.code().number().into_inner();
                write!(self.text, "connection error {code}; ")
            }
            Event::Waits(Waits::Answer) => write!(self.text, "waits; "),
            Event::End => write!(self.text, "end; "),
            _ => write!(self.text, "other; "),
        }
    }
}

/// Returns the text of the events of a stream with these bytes after its prefix, of which `size` bytes
/// come at a time, the last ones with the end of the stream.
pub(crate) fn play(
    alloc: Global,
    case: Case,
    bytes: &[u8],
    size: usize,
) -> Result<String, AllocError> {
    let mut whole = Vec::from_slice(alloc, case.prefix())?;
    whole.extend_from_slice(bytes)?;
    let bytes = whole.as_slice();
    let limit = match case {
        Case::Session(_) | Case::Early(_) | Case::Recorded(_) => 4096,
        _ => 300,
    };
    let mut fields = Fields::new(alloc, limit);
    let mut connection = match case {
        Case::Response(_) => Connection::new(Endpoint::new(Side::Client), true),
        Case::Request | Case::Answered(_) => server(false),
        Case::Session(_) | Case::Early(_) | Case::Recorded(_) => server(true),
    };
    if let Case::Session(_) | Case::Recorded(_) = case {
        configure(&mut connection, &mut fields);
    }
    let mut stream = match case {
        Case::Response(asked) => connection.open(asked),
        _ => connection.accept(0),
    };
    let mut player = Player {
        text: String::new(alloc),
        data: 0,
        start: 0,
    };
    let mut end: usize = size.min(bytes.len());
    for _turn in 0..3000u32 {
        let piece = bytes.get(player.start..end).unwrap_or(&[]);
        let is_last = end == bytes.len();
        let received = connection.receive(&mut stream, piece, is_last, &mut fields);
        if let Event::Waits(Waits::Answer) = received.event {
            match case {
                Case::Answered(status)
                | Case::Session(status)
                | Case::Early(status)
                | Case::Recorded(status) => stream.answer(status),
                _ if is_last => {
                    player.take(&received)?;
                    break;
                }
                _ => end = bytes.len(),
            }
        } else if let Event::Waits(Waits::Settings) = received.event {
            player.take(&received)?;
            configure(&mut connection, &mut fields);
        } else if player.take(&received)? {
            if is_last {
                break;
            }
            end = end.saturating_add(size).min(bytes.len());
        }
    }
    player.flush()?;
    Ok(player.text)
}
