//! The commands of a script.
use anyhow::{Context, Result, bail};
use std::alloc::Global;
use vesgrauf::{FieldList, Side, StatusCode};

/// The largest field section, in bytes.
const LIMIT: u64 = 65_536;

/// What an end supports.
#[derive(Clone, Copy, PartialEq, Eq)]
pub enum Supports {
    /// Nothing beside requests.
    Nothing,
    /// Extended CONNECT.
    Connect,
    /// Extended CONNECT, WebTransport and datagrams.
    Sessions,
}

/// A line of a script.
#[derive(Drop)]
pub enum Command {
    /// Begins an end of this side, which allows a dynamic table of this capacity, and supports this.
    Begin(Side, u32, Supports),
    /// Sends a request with these fields on the stream with this ID, once the peer allows it.
    Request(u64, FieldList),
    /// Opens the stream with this ID for a session, once that is open.
    Open(u64, u64),
    /// The next bytes of a stream, and whether it ends after them.
    Bytes(u64, Vec<u8>, bool),
    /// The peer reset a stream, with this code.
    Reset(u64, u64),
    /// Answers the request on a stream with this status, once it came.
    Answer(u64, StatusCode),
    /// A QUIC datagram came.
    Datagram(Vec<u8>),
    /// The peer asked to stop the own half of a stream, with this code.
    Stop(u64, u64),
    /// A stream is read no longer.
    Abandon(u64),
}

impl Command {
    /// Reads a line.
    ///
    /// # Errors
    ///
    /// If it is no command.
    pub fn parse(alloc: Global, line: &str) -> Result<Command> {
        let (name, rest) = first_word(line);
        match name {
            "server" => begin(Side::Server, rest),
            "client" => begin(Side::Client, rest),
            "bytes" => bytes(alloc, rest, false),
            "end" => bytes(alloc, rest, true),
            "request" => request(alloc, rest),
            "session" => {
                let (id, session) = first_word(rest);
                Ok(Command::Open(number(id)?, number(session)?))
            }
            "reset" => {
                let (id, code) = first_word(rest);
                Ok(Command::Reset(number(id)?, number(code)?))
            }
            "stop" => {
                let (id, code) = first_word(rest);
                Ok(Command::Stop(number(id)?, number(code)?))
            }
            "abandon" => Ok(Command::Abandon(number(rest)?)),
            "answer" => answer(rest),
            "datagram" => Ok(Command::Datagram(octets(alloc, rest)?)),
            _ => bail!("no command"),
        }
    }
}

/// Returns the first word of a line, and the rest of the line.
fn first_word(line: &str) -> (&str, &str) {
    line.split_once(' ').unwrap_or((line, ""))
}

/// Reads an ID or a code.
fn number(word: &str) -> Result<u64> {
    word.parse::<u64>().context("no number")
}

/// Reads the capacity of the dynamic table that an end of this side allows, and what it supports.
fn begin(side: Side, rest: &str) -> Result<Command> {
    let (table, word) = first_word(rest);
    let supports = match word {
        "" => Supports::Sessions,
        "connect" => Supports::Connect,
        "nothing" => Supports::Nothing,
        _ => bail!("nothing that is supported"),
    };
    let table = table.parse::<u32>().context("no capacity")?;
    Ok(Command::Begin(side, table, supports))
}

/// Reads bytes.
fn octets(alloc: Global, word: &str) -> Result<Vec<u8>> {
    hex::decode(alloc, word).context("no bytes")
}

/// Reads a stream's ID and its bytes.
fn bytes(alloc: Global, rest: &str, fin: bool) -> Result<Command> {
    let (id, digits) = first_word(rest);
    Ok(Command::Bytes(number(id)?, octets(alloc, digits)?, fin))
}

/// Reads a stream's ID and the field section of a request.
fn request(alloc: Global, rest: &str) -> Result<Command> {
    let (id, digits) = first_word(rest);
    let section = octets(alloc, digits)?;
    let list = FieldList::decode(alloc, section.as_slice(), LIMIT).context("no fields")?;
    Ok(Command::Request(number(id)?, list))
}

/// Reads a stream's ID and a status.
fn answer(rest: &str) -> Result<Command> {
    let (id, status) = first_word(rest);
    let status = status.parse::<u32>().context("no number")?;
    let status = StatusCode::try_from_u32(status).context("no status")?;
    Ok(Command::Answer(number(id)?, status))
}
