//! Polled reading of frames.
ghost use Rattle.std.specs.Prelude.{◌≡◌, length, None, IfSome};
ghost use Rattle.wtp_core.specs.Source.{HasModel};
ghost use Rattle.wtp_core.specs.Polled.{PollsAtMost, WaitsAs};
ghost use Rattle.wtp_wire.specs.Held.{new_held, IsUnfinished};
ghost use Rattle.wtp_wire.specs.FramePolling.{FramePolled, FrameGiven};
ghost use Rattle.wtp_wire.specs.FrameSteps.{CanAnswer, IsAnswer, IsFramed, TakesFrame, SkipPolled, SkipGiven};

mod part;

use crate::frame::body::Body;
use crate::frame::head::Announcement;
use crate::frame::kind::FrameType;
use crate::frame::reading::part::{PartialFrame, ReadInterrupted};
use crate::frame::whole::parse_buffered;
use crate::frame::{Frame, FrameOwned, ParseError};
use std::alloc::Global;
use std::fmt;
use std::marker::Model;
use wtp_core::bytes;
use wtp_core::bytes::{AsyncRead, Polled};
use wtp_core::polling::fill::interrupt_result;
use wtp_core::polling::skip_ahead::skip_bytes;

/// The reason why no frame was read from a source.
///
/// It covers one frame, whatever stream it is on. `stream::IoReadError` also covers the rules of a
/// stream, and `bytes::IoReadError` only the source.
#[derive(Debug, Drop, PartialEq, Eq, thiserror::Error)]
pub enum IoReadError {
    /// The bytes are not a valid frame.
    #[error("{0}")]
    Parse(ParseError),
    /// The source gave no more bytes.
    #[error("{0}")]
    IO(bytes::IoReadError),
}

impl From<bytes::IoReadError> for IoReadError {
    ghost use Rattle.std.specs.Prelude.{◌≡◌};
    ghost use Rattle.wtp_wire.specs.declared.frame.reading.IoReadError.TheVariants.{IO};

    ghost from_gives = { λ fault error. error ≡ IO fault };

    fn from(fault: bytes::IoReadError) -> Self {
        IoReadError::IO(fault)
    }
}

impl<'a> Frame<'a> {
    /// Returns a state that reads frames from a source, one after the other, poll by poll.
    pub fn read_async(alloc: Global) -> FrameReading
        ensures { result ≡ new_held }
    {
        FrameReading::new(alloc)
    }
}

/// Reads one frame from a source, poll by poll, and takes no byte after it.
///
/// It buffers a partial frame, or counts the bytes of an unknown frame left to skip, across polls.
/// After a frame or a parse error it is reset and reads the next frame.
#[derive(Drop)]
pub struct FrameReading {
    alloc: Global,
    part: PartialFrame,
    skip_remaining: u64,
}

// Prints the number of bytes held, and the number of bytes left to skip.
impl fmt::Debug for FrameReading {
    fn fmt<W: fmt::Write>(&self, f: &mut fmt::Formatter<W>) -> fmt::Result {
        f.debug_struct("FrameReading")
            .field("head_bytes", &self.part.head_len())
            .field("payload_bytes", &self.part.payload_len())
            .field("due_bytes", &self.skip_remaining)
            .finish_non_exhaustive()
    }
}

impl Model for FrameReading {
    ghost use Rattle.std.specs.Prelude.{◌≡◌, ◌<◌, []};
    ghost use Rattle.wtp_wire.specs.PartialFrame.{bytes_in, IsReading};
    ghost use Rattle.wtp_wire.specs.Held.{Held};

    ghost Value = { Held };

    ghost view = { λ s. record { taken = bytes_in s.part; skip_remaining = s.skip_remaining } };

    ghost invariant = { λ s. IsReading s.part × (0 < s.skip_remaining → s.part.head ≡ []) };
}

impl FrameReading {
    /// Creates a state that has read nothing.
    pub fn new(alloc: Global) -> Self
        ensures { result ≡ new_held }
    {
        FrameReading {
            alloc,
            part: PartialFrame::new(alloc),
            skip_remaining: 0,
        }
    }

    /// Reads until a frame is complete or the source gives no more. Calls the source at most 4112
    /// times.
    ///
    /// - `Ready(Ok(frame))` or `Ready(Err(Parse(error)))`: the result of `Frame::read` for the
    ///   bytes received and ahead. The source is positioned right after the bytes that
    ///   `Frame::read` reads.
    /// - `Ready(Err(IO(error)))`: the source gave no more bytes, and there were too few. All bytes
    ///   received are held; those of an unknown frame are held until its head is complete, and
    ///   skipped from then on.
    /// - `Pending`: the source was not ready, and was not called again after that. All bytes
    ///   received are held or skipped, as above.
    /// - `NoMemory`: allocation failed for a payload of 1 to 4096 bytes. All bytes received are
    ///   held.
    /// - `Again`: 4096 bytes of an unknown frame's payload were skipped, and more are left to skip.
    ///
    /// It may be polled again after each of these, with the same source or another one.
    ///
    /// If the source has a complete frame of a known type buffered, and nothing of it was read
    /// before, it is taken in one call, and a payload of at most 40 bytes then usually needs no
    /// allocation. A payload is allocated once, before its first byte is read. This is how it is
    /// implemented; the contract does not promise it.
    #[inline(always)]
    pub fn poll<S: AsyncRead>(&mut self, source: &mut S) -> Polled<Result<FrameOwned, IoReadError>>
        ensures was_unfinished { IsUnfinished self.old }
        ensures unfinished { IsUnfinished self.new }
        ensures given { FrameGiven result self.old self.new }
        ensures polled { HasModel (S.model source.old) (S.model source.new)
            (FramePolled result self.old self.new) }
        ensures waits { HasModel (S.model source.old) (S.model source.new) (WaitsAs result) }
        ensures asks { HasModel (S.model source.old) (S.model source.new) (PollsAtMost 4112) }
    {
        if self.skip_remaining == 0 && self.part.head_len() == 0 {
            if let Some(frame) = take_buffered_frame(self.alloc, source) {
                return Polled::Ready(Ok(frame));
            }
        }
        self.read_on(source)
    }

    /// Reads as `poll` does, but does not look for a complete frame in the source's buffered bytes.
    fn read_on<S: AsyncRead>(&mut self, source: &mut S) -> Polled<Result<FrameOwned, IoReadError>>
        ensures was_unfinished { IsUnfinished self.old }
        ensures unfinished { IsUnfinished self.new }
        ensures given { FrameGiven result self.old self.new }
        ensures polled { HasModel (S.model source.old) (S.model source.new)
            (FramePolled result self.old self.new) }
        ensures waits { HasModel (S.model source.old) (S.model source.new) (WaitsAs result) }
        ensures asks { HasModel (S.model source.old) (S.model source.new) (PollsAtMost 4112) }
    {
        if self.skip_remaining > 0 {
            return skip_payload(source, &mut self.skip_remaining);
        }
        let announcement = match self.part.advance(source) {
            Ok(announcement) => announcement,
            Err(ReadInterrupted::Source(why)) => return interrupt_result(why, self.part.len()),
            Err(ReadInterrupted::NoMemory) => return Polled::NoMemory,
        };
        let payload = self.part.take_payload(self.alloc);
        match announcement {
            Announcement::Skip(size) => {
                self.skip_remaining = size;
                skip_payload(source, &mut self.skip_remaining)
            }
            _ => Polled::Ready(answer(announcement, payload)),
        }
    }
}

/// Takes the first frame of a source if the source has buffered all of it. Otherwise returns
/// `None`, and the source is unchanged.
#[inline(always)]
fn take_buffered_frame<S: AsyncRead>(alloc: Global, source: &mut S) -> Option<FrameOwned>
    ensures framed { IfSome result IsFramed }
    ensures takes { IfSome result
        (λ f. HasModel (S.model source.old) (S.model source.new) (TakesFrame f)) }
    ensures none { result ≡ None → source.new ≡ source.old }
{
    let (frame, size) = parse_buffered(alloc, source.buffered())?;
    if source.take_buffered(size) {
        Some(frame)
    } else {
        None
    }
}

/// Returns the result for a complete head and its payload. The frame must not be one to skip.
#[inline(always)]
fn answer(announcement: Announcement, payload: Vec<u8>) -> Result<FrameOwned, IoReadError>
    requires { CanAnswer announcement (length payload.items) }
    ensures { IsAnswer announcement payload.items result }
{
    match announcement {
        Announcement::Payload(kind, _) => Ok(Frame {
            kind: FrameType::of(kind),
            body: Body::Owned(payload),
        }),
        Announcement::Session(id) => Ok(Frame::new_webtransport(id)),
        Announcement::BadSession => Err(IoReadError::Parse(ParseError::InvalidSessionId)),
        Announcement::TooLong => Err(IoReadError::Parse(ParseError::PayloadTooBig)),
        Announcement::Skip(_) | Announcement::Unfinished => unreachable!(),
    }
}

/// Skips `skip_remaining` payload bytes of an unknown frame, up to 4096 in one poll.
fn skip_payload<S: AsyncRead>(
    source: &mut S,
    skip_remaining: &mut u64,
) -> Polled<Result<FrameOwned, IoReadError>>
    ensures plain { SkipGiven result skip_remaining.old skip_remaining.new }
    ensures skipped { HasModel (S.model source.old) (S.model source.new)
        (SkipPolled result skip_remaining.old skip_remaining.new) }
    ensures waits { HasModel (S.model source.old) (S.model source.new) (WaitsAs result) }
{
    match skip_bytes(source, skip_remaining) {
        Ok(()) => {
            if *skip_remaining == 0 {
                Polled::Ready(Err(IoReadError::Parse(ParseError::UnknownFrame)))
            } else {
                Polled::Again
            }
        }
        Err(interrupt) => interrupt_result(interrupt, 1),
    }
}
