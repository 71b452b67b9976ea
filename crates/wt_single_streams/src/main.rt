//! Both ends of a WebTransport session, in memory: a client and a server that use only
//! `wtransport_proto`.
#![tactic(auto)]

mod client;
mod closing;
mod control;
mod faults;
mod pipes;
mod quic;
mod server;
mod session;
mod streams;
mod turns;

use crate::control::Control;
use crate::pipes::{Incoming, Outgoing};
use crate::quic::{MemoryReceiver, MemorySender, QuicSink, QuicSource};
use crate::server::PeerStream;
use anyhow::{Context, Result, bail};
use std::alloc::Global;
use std::io;
use wtransport_proto::capsule::capsules::CloseWebTransportSession;
use wtransport_proto::ids::SessionId;
use wtransport_proto::session::{SessionRequest, SessionResponse};
use wtransport_proto::settings::Settings;
use wtransport_proto::stream::session::StreamSession;

fn main(rt: HostRuntime) -> Result<()> {
    let alloc = rt.alloc();
    print_heading(&rt, "settings")?;
    exchange_settings(&rt, alloc)?;
    print_heading(&rt, "requests")?;
    request_sessions(&rt, alloc)?;
    print_heading(&rt, "closed after")?;
    faults::print_each(&rt, alloc)?;
    Ok(())
}

/// Prints a heading for the lines that follow.
fn print_heading<R: Print>(rt: &R, heading: &str) -> io::Result<()> {
    println!(rt; "{heading}")
}

/// The server sends its control stream and the client reads it. The other direction works the
/// same way.
fn exchange_settings<R: Print>(rt: &R, alloc: Global) -> Result<()> {
    let mut sent = Vec::new(alloc);
    server::write_control(alloc, &mut sent)?;
    print_settings(rt, &read_settings(alloc, sent.as_slice())?)?;
    Ok(())
}

/// The client reads a control stream with these bytes.
fn read_settings(alloc: Global, sent: &[u8]) -> Result<Settings> {
    let mut source = Incoming::new(sent, 2);
    let stream = control::accept_unidirectional(&mut source)?;
    let mut control = Control::new(stream).context("not a control stream")?;
    control.read_settings(alloc, &mut source)
}

/// Prints each setting and its value.
fn print_settings<R: Print>(rt: &R, settings: &Settings) -> io::Result<()> {
    for (id, value) in settings.iter() {
        println!(rt; "  {id} = {value}")?;
    }
    Ok(())
}

/// The client requests two sessions. The server rejects the first, and both ends use the second.
fn request_sessions<R: Print>(rt: &R, alloc: Global) -> Result<()> {
    request_session(rt, alloc, "https://example.com/none")?;
    match request_session(rt, alloc, "https://example.com/chat")? {
        Some(mut session) => use_session(rt, alloc, &mut session),
        None => bail!("no session"),
    }
}

/// Both ends use a session and then close it.
fn use_session<R: Print>(rt: &R, alloc: Global, session: &mut StreamSession) -> Result<()> {
    let id = SessionId::try_from_varint(4u32.into())?;
    print_session(rt, id)?;
    use_streams(rt, alloc, id)?;
    use_datagram(rt, alloc, id)?;
    close_session(rt, alloc, session)
}

/// Prints the ID of a session.
fn print_session<R: Print>(rt: &R, id: SessionId) -> io::Result<()> {
    println!(rt; "session {id}")
}

/// The client requests a session, the server responds, and the client reads the response.
fn request_session<R: Print>(rt: &R, alloc: Global, url: &str) -> Result<Option<StreamSession>> {
    let mut sink = Outgoing::new(Vec::new(alloc), 7);
    let requested = client::request(alloc, url, &mut sink)?;
    let sent = sink.into_taken();
    let (session, sent) = accept_session(rt, alloc, sent.as_slice())?;
    read_response(rt, alloc, &requested, sent.as_slice())?;
    Ok(session)
}

/// The server reads a request from these bytes. Returns the session, or `None` if the server
/// rejects it, and the bytes of the response.
fn accept_session<R: Print>(
    rt: &R,
    alloc: Global,
    sent: &[u8],
) -> Result<(Option<StreamSession>, Vec<u8>)> {
    let mut source = Incoming::new(sent, 5);
    let PeerStream::Request(stream, request) = server::accept(alloc, &mut source)? else {
        bail!("not a request");
    };
    print_request(rt, &request)?;
    let mut sink = Outgoing::new(Vec::new(alloc), 1);
    let session = server::respond(alloc, stream, request, &mut sink)?;
    Ok((session, sink.into_taken()))
}

/// Prints the path and the origin of a request.
fn print_request<R: Print>(rt: &R, request: &SessionRequest) -> io::Result<()> {
    println!(rt; "  {} from {:?}", request.path(), request.origin())
}

/// The client reads a response from these bytes.
fn read_response<R: Print>(
    rt: &R,
    alloc: Global,
    requested: &StreamSession,
    sent: &[u8],
) -> Result<()> {
    let mut source = Incoming::new(sent, 1);
    let response = client::read_response(alloc, requested, &mut source)?;
    print_response(rt, &response)?;
    println!(rt; "  read after {} waits", source.waits())?;
    Ok(())
}

/// Prints the status code and the server name of a response.
fn print_response<R: Print>(rt: &R, response: &SessionResponse) -> io::Result<()> {
    println!(rt; "  {} from {:?}", response.code(), response.get("server"))
}

/// Each end opens a bidirectional and a unidirectional stream.
fn use_streams<R: Print>(rt: &R, alloc: Global, id: SessionId) -> Result<()> {
    for opener in ["the client", "the server"] {
        let echoed = echo(alloc, id, opener.as_bytes())?;
        print_data(rt, "back to", echoed.as_slice())?;
        let received = send_one_way(alloc, id, opener.as_bytes())?;
        print_data(rt, "one way from", received.as_slice())?;
    }
    Ok(())
}

/// Prints data, which must be UTF-8.
fn print_data<R: Print>(rt: &R, label: &str, data: &[u8]) -> Result<()> {
    println!(rt; "  {label} {}", str::from_utf8(data)?)?;
    Ok(())
}

/// Opens a bidirectional stream, which the other end accepts, and sends data that comes back.
fn echo(alloc: Global, id: SessionId, data: &[u8]) -> Result<Vec<u8>> {
    let mut sink = Outgoing::new(Vec::new(alloc), 3);
    let opened = streams::open_bidirectional(id, &mut sink)?;
    streams::send(data, &mut sink)?;
    let sent = sink.into_taken();
    let received = accept_data(alloc, opened.session_id(), sent.as_slice())?;
    send_back(alloc, received.as_slice())
}

/// Accepts a stream with these bytes, which must belong to the session, and receives its data.
fn accept_data(alloc: Global, id: SessionId, sent: &[u8]) -> Result<Vec<u8>> {
    let mut source = Incoming::new(sent, 4);
    let accepted = streams::accept_bidirectional(alloc, &mut source)?;
    if accepted.session_id() != id {
        bail!("a stream of another session");
    }
    streams::receive(alloc, &mut source)
}

/// Sends data to the end that opened the stream. That end receives it.
fn send_back(alloc: Global, data: &[u8]) -> Result<Vec<u8>> {
    let mut sink = Outgoing::new(Vec::new(alloc), 2);
    streams::send(data, &mut sink)?;
    let sent = sink.into_taken();
    streams::receive(alloc, &mut Incoming::new(sent.as_slice(), 2))
}

/// Opens a unidirectional stream over a QUIC library and sends data on it.
fn send_one_way(alloc: Global, id: SessionId, data: &[u8]) -> Result<Vec<u8>> {
    let mut sink = QuicSink {
        stream: MemorySender::new(alloc),
    };
    let opened = streams::open_unidirectional(id, &mut sink)?;
    streams::send(data, &mut sink)?;
    let mut source = QuicSource {
        stream: MemoryReceiver::new(sink.stream.bytes()),
    };
    let accepted = control::accept_unidirectional(&mut source)?;
    if accepted.session_id() != opened.session_id() {
        bail!("a stream of another session");
    }
    streams::receive(alloc, &mut source)
}

/// The client sends a datagram.
fn use_datagram<R: Print>(rt: &R, alloc: Global, id: SessionId) -> Result<()> {
    let datagram = client::datagram(alloc, id, b"a datagram")?;
    let mut payload = Vec::new(alloc);
    let session = server::read_datagram(datagram.as_slice(), &mut payload)?;
    println!(rt;
        "  {} of session {session}",
        str::from_utf8(payload.as_slice())?
    )?;
    Ok(())
}

/// The client closes the session, and the server reads the reason.
fn close_session<R: Print>(rt: &R, alloc: Global, session: &mut StreamSession) -> Result<()> {
    let mut sent = Vec::new(alloc);
    client::close(alloc, 7, "bye", &mut sent)?;
    let mut source = Incoming::new(sent.as_slice(), 3);
    let close = session::read_close(alloc, session, &mut source)?;
    print_close(rt, close.as_ref())?;
    Ok(())
}

/// Prints the reason for closing a session.
fn print_close<R: Print>(rt: &R, close: Option<&CloseWebTransportSession>) -> io::Result<()> {
    match close {
        Some(close) => println!(rt; "  closed with {}: {}", close.error_code(), close.reason()),
        None => println!(rt; "  closed"),
    }
}
