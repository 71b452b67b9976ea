//! The stream of a session after the response: capsules in DATA frames.
ghost use Rattle.std.specs.Prelude.{◌≡◌, ◌↔◌, ◌⊎◌, [], IfOk, IsOk, IsTrue};
ghost use Rattle.wtransport_proto.specs.CapsuleFront.{End};
ghost use Rattle.wtransport_proto.specs.CapsuleStream.{next_held};
ghost use Rattle.wt_single_streams.specs.Ends.{CanContinue, HasEnded};

use crate::turns::TURNS;
use anyhow::{Result, bail};
use std::alloc::Global;
use wtransport_proto::bytes::{AsyncRead, IoReadError, Polled};
use wtransport_proto::capsule::capsules::CloseWebTransportSession;
use wtransport_proto::capsule::{CapsuleKind, CapsuleReading};
use wtransport_proto::frame::{FrameKind, FrameOwned, FrameReading};
use wtransport_proto::stream;
use wtransport_proto::stream::session::StreamSession;
use wtransport_proto::stream::{Driven, drive};

/// Reads up to the capsule that closes the session, or to the end of the stream, which closes the
/// session without an error code.
pub fn read_close<S: AsyncRead>(
    alloc: Global,
    session: &mut StreamSession,
    source: &mut S,
) -> Result<Option<CloseWebTransportSession>> {
    let mut reading = FrameReading::new(alloc);
    let mut capsules = CapsuleReading::new(alloc);
    for _turn in 0..TURNS {
        let polled = poll_close(alloc, session, &mut reading, &mut capsules, source)?;
        if let Polled::Ready(close) = polled {
            return Ok(close);
        }
    }
    bail!("the stream is not ready")
}

/// Polls the stream of a session. `Ready` contains the close, or `None` if the stream has ended.
fn poll_close<S: AsyncRead>(
    alloc: Global,
    session: &mut StreamSession,
    reading: &mut FrameReading,
    capsules: &mut CapsuleReading,
    source: &mut S,
) -> Result<Polled<Option<CloseWebTransportSession>>> {
    let mut frames = Vec::new(alloc);
    let driven = drive(session, reading, source, &mut frames, 16);
    let close = first_close(alloc, capsules, frames.as_slice())?;
    if close.is_some() || has_ended(driven, capsules)? {
        return Ok(Polled::Ready(close));
    }
    Ok(Polled::Pending)
}

/// Returns whether the stream has ended. It must not end inside a capsule.
fn has_ended(driven: Driven, capsules: &CapsuleReading) -> Result<bool>
    ensures value { IfOk result (λ ended. IsTrue ended ↔ HasEnded driven) }
    ensures ok { IsOk result
        ↔ (CanContinue driven ⊎ (HasEnded driven × (next_held capsules.now [] ≡ End))) }
{
    match driven {
        Driven::Waiting | Driven::Spent => Ok(false),
        Driven::NoMemory => bail!("out of memory"),
        Driven::Ended(stream::IoReadError::IO(IoReadError::ImmediateFin)) => {
            capsules.finish()?;
            Ok(true)
        }
        Driven::Ended(fault) => Err(fault.into()),
    }
}

/// Returns the first close that is completed in these frames.
fn first_close(
    alloc: Global,
    capsules: &mut CapsuleReading,
    frames: &[FrameOwned],
) -> Result<Option<CloseWebTransportSession>> {
    for frame in frames {
        let close = close_in(alloc, capsules, frame)?;
        if close.is_some() {
            return Ok(close);
        }
    }
    Ok(None)
}

/// Returns the close that is completed in this frame. Only DATA frames contain capsules.
fn close_in(
    alloc: Global,
    capsules: &mut CapsuleReading,
    frame: &FrameOwned,
) -> Result<Option<CloseWebTransportSession>> {
    if frame.kind() != FrameKind::Data {
        return Ok(None);
    }
    let mut data = frame.payload();
    let Some(capsule) = capsules.next(&mut data)? else {
        return Ok(None);
    };
    match capsule.kind() {
        CapsuleKind::CloseWebTransportSession => {
            Ok(Some(CloseWebTransportSession::with_capsule(alloc, &capsule)?))
        }
    }
}
