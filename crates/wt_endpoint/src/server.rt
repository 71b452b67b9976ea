//! An echo server.
use anyhow::Result;
use std::alloc::Global;
use test_network::connections::Connections;
use test_network::handler::Handler;
use vesgrauf::connection::Connection;
use vesgrauf::event::{Event, EventKind, Tunnel};
use vesgrauf::output::StreamKind;
use vesgrauf::{Code, FieldList, StatusCode};

/// Answers GET, and at `/echo` sends back what comes, on its own stream or on that whose ID is the stream's number.
#[derive(Drop)]
pub struct Server {
    pub alloc: Global,
}

impl Handler for Server {
    fn event(&mut self, on: &mut Connections, event: Event<'_>) -> Result<()> {
        let on = on.here();
        let (id, to) = (event.stream, event.user.unwrap_or(event.stream));
        match event.kind {
            EventKind::Request(list) => answer(self.alloc, on, id, &list),
            EventKind::Connect(Tunnel::Session, list) => answer(self.alloc, on, id, &list),
            EventKind::Connect(Tunnel::Other, _) => {
                let list = FieldList::response(self.alloc, StatusCode::NOT_IMPLEMENTED)?;
                Ok(on.respond(id, &list, true)?)
            }
            EventKind::NewStream(StreamKind::Unidirectional) => {
                let back = on.open_stream(event.session.unwrap_or(0), StreamKind::Unidirectional)?;
                on.set_user(id, back)?;
                Ok(on.set_user(back, id)?)
            }
            EventKind::Data(bytes) => match on.send(to, bytes.as_slice(), false)? {
                true => Ok(()),
                false => Ok(on.pause(id, true)?),
            },
            EventKind::Writable => Ok(on.pause(to, false)?),
            EventKind::End => Ok(on.finish(to)?),
            EventKind::Datagram(bytes) => {
                on.send_datagram(id, bytes.as_slice())?;
                Ok(())
            }
            _ => Ok(()),
        }
    }
}

/// Answers a request. Where all of the response is sent at once, the rest of the request is not read.
fn answer(alloc: Global, on: &mut Connection, id: u64, list: &FieldList) -> Result<()> {
    let (status, content) = match (list.first(b":method"), list.first(b":path")) {
        (Some(b"GET"), Some(b"/")) => (StatusCode::OK, Some("hello")),
        (Some(b"POST" | b"CONNECT"), Some(b"/echo")) => (StatusCode::OK, None),
        _ => (StatusCode::NOT_FOUND, Some("")),
    };
    on.respond(id, &FieldList::response(alloc, status)?, false)?;
    if let Some(content) = content {
        on.send(id, content.as_bytes(), true)?;
        on.stop_sending(id, Code::H3_NO_ERROR.into())?;
    }
    Ok(())
}
