//! Plays recorded connections to an end of its own: what a peer sent comes to a connection of `vesgrauf`, which sends the
//! requests that were asked and answers those that came. A script is read from standard input, and what the connection
//! tells is printed, with what QUIC is to do.
//!
//! A line of a script is a command, and numbers are decimal:
//!
//! - `server TABLE`, `client TABLE`: begins an end of this side, which allows a dynamic table of this capacity. With
//!   `connect` after it, it supports extended CONNECT and no sessions, with `nothing` neither.
//! - `request ID HEX`: sends a request with this field section on the stream with this ID, as soon as the peer allows
//!   it. Requests come in the order of their IDs; the IDs between them get other requests.
//! - `session ID SESSION`: opens a stream of this session, as soon as the session is open. Whatever ID the connection
//!   chooses, the stream has this one in the script and in the output.
//! - `bytes ID HEX`: the next bytes of a stream. Those of a stream that is to be opened here wait for that.
//! - `end ID HEX`, `end ID`: its last bytes, and its end. The own half ends then too.
//! - `reset ID CODE`: the peer reset a stream.
//! - `answer ID STATUS`: answers the request on a stream with this status, as soon as it came.
//! - `datagram HEX`: a QUIC datagram came.
//! - `stop ID CODE`: the peer asked to stop the own half of a stream.
//! - `abandon ID`: a stream is read no longer.
//!
//! In the output a line `connection` begins a connection. Each other line begins with the number of the command that it
//! came of, from 0, and a stream, or `-`:
//!
//! - an event: `request`, `asked` (for a session), `interim`, `response`, `trailers` with fields in hexadecimal; `data`,
//!   `datagram`; `joined SESSION`, `end`, `draining`, `reset CODE`, `stopped CODE`; `settings`, `goaway ID`,
//!   `over CODE BY-PEER`;
//! - why a stream is over: `done`, `closed CODE REASON`, `gone` (with its session), `malformed RULE`, `large`,
//!   `fault CODE`, `unprocessed`, `broken` (with the connection);
//! - `resets CODE`, `stops CODE`, `closes CODE`: what QUIC is to do; `decoder HEX`: bytes of the decoder stream;
//! - `answered STATUS`: a CONNECT request was answered; `credit LEN`: of a piece not all bytes are credited, but these;
//! - `held LEN`, at last: how many bytes wait.
#![tactic(auto)]

mod command;
mod lines;
mod plan;
mod player;

use crate::command::{Command, Supports};
use crate::lines::Lines;
use crate::player::{Player, config};
use anyhow::{Context, Result};
use std::io::{BufRead, BufReader, Write};
use std::mem;
use vesgrauf::Side;
use vesgrauf::connection::Connection;

fn main(rt: HostRuntime) -> Result<()> {
    let alloc = rt.alloc();
    let mut output = rt.stdout();
    let mut connection = Connection::new(alloc, config(Side::Server, 0, Supports::Sessions))?;
    let mut player = Player::new(alloc, Side::Server, Lines::new(alloc));
    for line in BufReader::new(alloc, rt.reader())?.lines(alloc) {
        let line = line?;
        let command = Command::parse(alloc, line.as_str()).context(format_args!(
            "in the line {line:?}"
        ))?;
        if let Command::Begin(side, table, supports) = command {
            player.finish(&connection)?;
            let mut lines = mem::replace(&mut player.lines, Lines::new(alloc));
            output.write_all(lines.text.as_bytes())?;
            lines.begin()?;
            connection = Connection::new(alloc, config(side, table, supports))?;
            player = Player::new(alloc, side, lines);
        } else {
            player.run(&mut connection, command)?;
        }
    }
    player.finish(&connection)?;
    output.write_all(player.lines.text.as_bytes())?;
    output.flush()?;
    Ok(())
}
