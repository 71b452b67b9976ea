//! The result of a stream for the result of its reading: one implementation for all kinds, which
//! differ in their rule.
ghost use Rattle.std.specs.Prelude.{◌≡◌};
ghost use Rattle.wtp_core.specs.Polled.{polled_waits};
ghost use Rattle.wtransport_proto.specs.StreamPolling.{JudgesGiven, JudgesPolled, first_after, without_frame};
ghost use Rattle.wtp_wire.specs.Codes.{frame_code};

use crate::stream::error::{IoReadError, stream_fault};
use crate::stream::reading::{Rule, permit};
use wtp_core::bytes::Polled;
use wtp_wire::frame;
use wtp_wire::frame::{FrameOwned, ParseError};

/// Converts the result of a poll of a reading to that of its stream, by the rule of `K`. A complete
/// frame would be the first of the stream if `first` says so.
#[inline(always)]
pub(crate) fn apply_rule<K: Rule>(
    first: bool,
    answer: Polled<Result<FrameOwned, frame::IoReadError>>,
) -> Polled<Result<FrameOwned, IoReadError>>
    ensures given { JudgesGiven K.role answer.entry result first (first_after first answer.entry) }
    ensures polled { JudgesPolled K.role answer.entry result first
        (first_after first answer.entry) }
    ensures waits { polled_waits result ≡ polled_waits answer.entry }
{
    match answer {
        Polled::Ready(Ok(frame)) => {
            Polled::Ready(permit::<K>(first, frame).map_err(IoReadError::H3))
        }
        Polled::Ready(Err(frame::IoReadError::Parse(fault))) => without_frame(&fault),
        Polled::Ready(Err(frame::IoReadError::IO(fault))) => {
            Polled::Ready(Err(stream_fault(fault)))
        }
        Polled::Pending => Polled::Pending,
        Polled::NoMemory => Polled::NoMemory,
        Polled::Again => Polled::Again,
    }
}

/// Returns the result of a stream for bytes that are no frame: an unknown one was skipped.
fn without_frame(fault: &ParseError) -> Polled<Result<FrameOwned, IoReadError>>
    ensures { result ≡ without_frame (frame_code fault.now) }
{
    let Some(code) = fault.code() else {
        return Polled::Again;
    };
    Polled::Ready(Err(IoReadError::H3(code)))
}
