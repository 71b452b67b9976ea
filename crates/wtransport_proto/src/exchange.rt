//! Sends a frame, and sends or receives a header map, in a bounded number of polls.
//!
//! A caller that has nothing else to do meanwhile repeats a poll itself; these calls do that.
ghost use Rattle.std.specs.Prelude.{◌≡◌, ◌≤◌, ◌*◌, ◌^◌, List, length, Err};
ghost use Rattle.wtp_core.specs.Source.{HasModel};
ghost use Rattle.wtp_core.specs.Polled.{PollsAtMost};
ghost use Rattle.wtp_wire.specs.Content.{HeadersOf};
ghost use Rattle.wtp_wire.specs.Wire.{wire};
ghost use Rattle.wtp_fields.specs.Field.{Field, IsMap, AreTexts};
ghost use Rattle.wtp_fields.specs.Headers.{payload};
ghost use Rattle.wtransport_proto.specs.Driving.{ChangesFirst};
ghost use Rattle.wtransport_proto.specs.Exchange.{WaitsAtMost, SendDid, FrameDid, MapDid, ReadsBack, Sent, Received, UnlessRead, SentBack};

use crate::stream::{IoReadError, IoWriteError, ReadsFrames};
use std::alloc::Global;
use wtp_core::bytes::{AsyncRead, AsyncWrite, Polled};
use wtp_core::error::Refused;
use wtp_fields::headers::Headers;
use wtp_wire::frame::{Frame, FrameKind, FrameOwned, FrameReading, GenerateError};

/// The reason a frame was not sent completely.
#[derive(Debug, Drop, PartialEq, Eq, thiserror::Error)]
pub enum SendError {
    /// Each turn ended with a sink that was not ready.
    #[error("the sink is not ready")]
    Waiting,
    /// The sink accepts no more bytes.
    #[error("{0}")]
    IO(IoWriteError),
    /// Memory allocation failed.
    #[error("no memory")]
    Memory,
}

/// The reason no header map was read.
#[derive(Debug, Drop, PartialEq, Eq, thiserror::Error)]
pub enum ReceiveError {
    /// No turn gave a frame: the source was not ready, or gave an unknown frame or a part of one.
    #[error("the source is not ready")]
    Waiting,
    /// The stream gives no frame.
    #[error("{0}")]
    Stream(IoReadError),
    /// The frame's kind is not HEADERS.
    #[error("no HEADERS frame")]
    OtherKind(FrameKind),
    /// The frame's payload is not a header map, or memory allocation failed for the map.
    #[error("{0}")]
    Section(Refused),
    /// Memory allocation failed for the frame.
    #[error("no memory")]
    Memory,
}

/// Why a header map that was sent was not read back: the step that failed.
#[derive(Debug, Drop, PartialEq, Eq, thiserror::Error)]
pub enum ExchangeError {
    /// No frame was created from the map.
    #[error("{0}")]
    Frame(GenerateError),
    /// The frame was not sent completely.
    #[error("{0}")]
    Send(SendError),
    /// No map was read.
    #[error("{0}")]
    Receive(ReceiveError),
}

/// Sends a complete frame, in at most `turns` polls.
///
/// On an error a part of the frame was sent, and the rest cannot be sent any more. Returns
/// `Waiting` if the sink was not ready in each turn.
pub fn send<W: AsyncWrite>(frame: &Frame<'_>, sink: &mut W, turns: u32) -> Result<(), SendError>
    ensures { HasModel (W.model sink.old) (W.model sink.new)
        (SendDid (wire frame.now) turns result) }
{
    let mut writing = frame.write_async();
    for _turn in 0..turns {
        match writing.poll(sink) {
            Polled::Ready(Ok(())) => return Ok(()),
            Polled::Ready(Err(fault)) => return Err(SendError::IO(fault)),
            Polled::Pending => {}
            Polled::NoMemory => return Err(SendError::Memory),
            Polled::Again => unreachable!(),
        }
    }
    Err(SendError::Waiting)
}

/// Reads the next frame, in at most `turns` polls.
fn next_frame<K: ReadsFrames, S: AsyncRead>(
    alloc: Global,
    stream: &mut K,
    source: &mut S,
    turns: u32,
) -> Result<FrameOwned, ReceiveError>
    requires { K.can stream.old }
    ensures can { K.can stream.new }
    ensures changes { ChangesFirst K.first stream.old stream.new }
    ensures read { HasModel (S.model source.old) (S.model source.new)
        (FrameDid K.role (K.first stream.old) (K.first stream.new) turns result) }
    ensures asks { HasModel (S.model source.old) (S.model source.new) (PollsAtMost (4112 * turns)) }
    ensures waits { HasModel (S.model source.old) (S.model source.new) (WaitsAtMost turns) }
{
    let mut reading = FrameReading::new(alloc);
    for _turn in 0..turns {
        match stream.read_frame_async(&mut reading, source) {
            Polled::Ready(Ok(frame)) => return Ok(frame),
            Polled::Ready(Err(fault)) => return Err(ReceiveError::Stream(fault)),
            Polled::Pending | Polled::Again => {}
            Polled::NoMemory => return Err(ReceiveError::Memory),
        }
    }
    Err(ReceiveError::Waiting)
}

/// Reads the header map of the next frame, in at most `turns` polls. Unknown frames are skipped.
///
/// The source is then positioned right after the frame. After `Waiting` or `Memory` it may be
/// positioned inside a frame: what was taken of that is lost, so that no more frames can be read.
/// To be able to go on, poll the stream's `read_frame_async` with a [`FrameReading`] that you keep.
/// Requires that frames may be read, as `can_read` reports.
///
/// If the input starts with the frame of a map, with a payload of at most 4096 bytes, and the
/// stream allows HEADERS frames, then that map is read, or the source was not ready in each turn,
/// or allocation failed.
pub fn receive<K: ReadsFrames, S: AsyncRead>(
    alloc: Global,
    stream: &mut K,
    source: &mut S,
    turns: u32,
) -> Result<Headers, ReceiveError>
    requires { K.can stream.old }
    ensures can { K.can stream.new }
    ensures changes { ChangesFirst K.first stream.old stream.new }
    ensures read { HasModel (S.model source.old) (S.model source.new)
        (MapDid K.role (K.first stream.old) (K.first stream.new) turns result) }
    ensures back { (m : List Field) → IsMap m → AreTexts m
        → HasModel (S.model source.old) (S.model source.new) (ReadsBack K.role m turns result) }
    ensures asks { HasModel (S.model source.old) (S.model source.new) (PollsAtMost (4112 * turns)) }
    ensures waits { HasModel (S.model source.old) (S.model source.new) (WaitsAtMost turns) }
{
    let frame = next_frame(alloc, stream, source, turns)?;
    match frame.kind() {
        FrameKind::Headers => match Headers::with_frame(alloc, &frame) {
            Ok(headers) => Ok(headers),
            Err(refused) => Err(ReceiveError::Section(refused)),
        },
        kind => Err(ReceiveError::OtherKind(kind)),
    }
}

/// Sends a complete header map, and then reads one from a stream; each in at most `turns` polls.
///
/// If the source starts with the map's frame, with a payload of at most 4096 bytes, and the stream
/// allows HEADERS frames, then the map that is read is the one that was sent, and what follows the
/// frame is ahead. No reading fault can occur then. Requires that frames may be read, as `can_read`
/// reports.
pub fn send_and_receive<W: AsyncWrite, K: ReadsFrames, S: AsyncRead>(
    alloc: Global,
    headers: &Headers,
    sink: &mut W,
    stream: &mut K,
    source: &mut S,
    turns: u32,
) -> Result<Headers, ExchangeError>
    requires { K.can stream.old }
    ensures back { HasModel (S.model source.old) (S.model source.new)
        (SentBack K.role headers.now turns result) }
    ensures sent { HasModel (W.model sink.old) (W.model sink.new)
        (Sent (wire (HeadersOf (payload headers.now))) turns result) }
    ensures received { HasModel (S.model source.old) (S.model source.new)
        (Received K.role (K.first stream.old) (K.first stream.new) turns result) }
    ensures asks { HasModel (S.model source.old) (S.model source.new) (PollsAtMost (4112 * turns)) }
    ensures waits { HasModel (S.model source.old) (S.model source.new) (WaitsAtMost turns) }
    ensures unread { UnlessRead result ((stream.new ≡ stream.old) × (source.new ≡ source.old)) }
    ensures too_long { result ≡ Err (ExchangeError.Frame GenerateError.PayloadTooLong)
        → 2 ^ 62 ≤ length (payload headers.now) }
    ensures can { K.can stream.new }
    ensures changes { ChangesFirst K.first stream.old stream.new }
{
    // Each name is in the map once, and all are texts.
    let _fields = headers.as_ref();
    let frame = headers.generate_frame(alloc).map_err(ExchangeError::Frame)?;
    send(&frame, sink, turns).map_err(ExchangeError::Send)?;
    match receive(alloc, stream, source, turns) {
        Ok(headers) => Ok(headers),
        Err(error) => Err(ExchangeError::Receive(error)),
    }
}
