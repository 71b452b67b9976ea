//! Loops that poll a stream. A live endpoint polls again when the stream is ready.

use anyhow::{Result, bail};
use wtransport_proto::bytes::{Polled, Stepped};

/// The maximum number of polls of a stream.
pub const TURNS: u32 = 10_000;

/// Polls until the result is ready.
pub fn until_ready<T, F: FnMut() -> Polled<T>>(mut poll: F) -> Result<T>
    requires { F.IsAlwaysCallable poll }
{
    for _turn in 0..TURNS {
        match poll() {
            Polled::Ready(value) => return Ok(value),
            Polled::Pending | Polled::Again => {}
            Polled::NoMemory => bail!("out of memory"),
        }
    }
    bail!("the stream is not ready")
}

/// Polls a state until it is done.
pub fn until_done<P: Drop, T, E: std::error::Error, F: FnMut(P) -> Stepped<P, T, E>>(
    mut state: P,
    mut poll: F,
) -> Result<T>
    requires { F.IsAlwaysCallable poll }
{
    for _turn in 0..TURNS {
        state = match poll(state) {
            Stepped::Done(done) => return Ok(done),
            Stepped::Pending(state) => state,
            Stepped::NoMemory(_) => bail!("out of memory"),
            Stepped::Failed(_, fault) => return Err(fault.into()),
        };
    }
    bail!("the stream is not ready")
}
