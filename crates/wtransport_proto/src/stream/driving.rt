//! Driving a stream: reading its frames poll by poll, as far as its source goes.
ghost use Rattle.std.specs.Prelude.{◌≡◌, ◌≢◌, ◌<◌, ◌≤◌, ◌⊎◌, Bool, IsTrue, ◌↔◌, ◌++◌, length, drop, false};
ghost use Rattle.wtp_core.specs.Cursor.{left_of, whole_of};
ghost use Rattle.wtp_core.specs.Source.{HasModel};
ghost use Rattle.wtp_core.specs.Polled.{PollsAtMost, WaitsAs};
ghost use Rattle.std.specs.Vec.{vec_len, vec_capacity};
ghost use Rattle.wtp_wire.specs.FramePolling.{HoldsHead};
ghost use Rattle.wtp_wire.specs.Held.{IsUnfinished};
ghost use Rattle.wtp_wire.specs.Rule.{Role, RemoteBi, LocalBi, RemoteUni, InSession};
ghost use Rattle.wtransport_proto.specs.Streams.{first_of, CanRead};
ghost use Rattle.wtransport_proto.specs.Reading.{AnswersRun, ReaderIsAfter};
ghost use Rattle.wtransport_proto.specs.StreamPolling.{StreamPolled, StreamGiven};
ghost use Rattle.wtransport_proto.specs.Driving.{ChangesFirst, DriveDid, DriveWaits};

use crate::stream::IoReadError;
use crate::stream::bilocal::StreamBiLocalH3;
use crate::stream::biremote::StreamBiRemoteH3;
use crate::stream::session::StreamSession;
use crate::stream::uniremote::StreamUniRemoteH3;
use wtp_core::bytes::{AsyncRead, BufferReader, Polled};
use wtp_core::error::ErrorCode;
use wtp_wire::frame::{Frame, FrameOwned, FrameReading};

/// A stream from which frames are read.
pub trait ReadsFrames {
    // The reading state.
    ghost role: { Role };

    // Whether no complete frame was read before.
    ghost first: { Self → Bool };

    // Whether frames may be read.
    ghost can: { Self → Type 0 };

    /// Returns whether frames may be read.
    fn can_read(&self) -> bool
        ensures { IsTrue result ↔ can self.now };

    /// Reads the next frame, and moves past it, as the stream's own `read_frame_from_buffer` does.
    /// Requires that frames may be read, as `can_read` reports.
    fn read_frame_from_buffer<'a>(
        &mut self,
        reader: &mut BufferReader<'a>,
    ) -> Result<Option<Frame<'a>>, ErrorCode>
        requires { can self.old }
        ensures can { can self.new }
        ensures changes { ChangesFirst first self.old self.new }
        ensures run { AnswersRun role (first self.old) (left_of reader.old) result
            (first self.new) (left_of reader.new) }
        ensures place { ReaderIsAfter role (first self.old) (left_of reader.old) result
            (first self.new) (left_of reader.new) }
        ensures whole { whole_of reader.new ≡ whole_of reader.old };

    /// Reads the next frame, poll by poll, as the stream's own `read_frame_async` does. Requires
    /// that frames may be read, as `can_read` reports.
    fn read_frame_async<S: AsyncRead>(
        &mut self,
        reading: &mut FrameReading,
        source: &mut S,
    ) -> Polled<Result<FrameOwned, IoReadError>>
        requires { can self.old }
        ensures can { can self.new }
        ensures changes { ChangesFirst first self.old self.new }
        ensures was_unfinished { IsUnfinished reading.old }
        ensures unfinished { IsUnfinished reading.new }
        ensures given { StreamGiven role result (first self.old) (first self.new) reading.old
            reading.new }
        ensures polled { HasModel (S.model source.old) (S.model source.new)
            (StreamPolled role result (first self.old) (first self.new) reading.old reading.new) }
        ensures waits { HasModel (S.model source.old) (S.model source.new) (WaitsAs result) }
        ensures asks { HasModel (S.model source.old) (S.model source.new) (PollsAtMost 4112) };
}

impl ReadsFrames for StreamBiRemoteH3 {
    ghost role = { RemoteBi };

    ghost first = { first_of };

    ghost can = { λ _. Unit {0} };

    fn can_read(&self) -> bool {
        true
    }

    #[inline(always)]
    fn read_frame_from_buffer<'a>(
        &mut self,
        reader: &mut BufferReader<'a>,
    ) -> Result<Option<Frame<'a>>, ErrorCode> {
        StreamBiRemoteH3::read_frame_from_buffer(self, reader)
    }

    #[inline(always)]
    fn read_frame_async<S: AsyncRead>(
        &mut self,
        reading: &mut FrameReading,
        source: &mut S,
    ) -> Polled<Result<FrameOwned, IoReadError>> {
        StreamBiRemoteH3::read_frame_async(self, reading, source)
    }
}

impl ReadsFrames for StreamBiLocalH3 {
    ghost role = { LocalBi };

    ghost first = { λ _. false };

    ghost can = { λ _. Unit {0} };

    fn can_read(&self) -> bool {
        true
    }

    #[inline(always)]
    fn read_frame_from_buffer<'a>(
        &mut self,
        reader: &mut BufferReader<'a>,
    ) -> Result<Option<Frame<'a>>, ErrorCode> {
        StreamBiLocalH3::read_frame_from_buffer(self, reader)
    }

    #[inline(always)]
    fn read_frame_async<S: AsyncRead>(
        &mut self,
        reading: &mut FrameReading,
        source: &mut S,
    ) -> Polled<Result<FrameOwned, IoReadError>> {
        StreamBiLocalH3::read_frame_async(self, reading, source)
    }
}

impl ReadsFrames for StreamUniRemoteH3 {
    ghost role = { RemoteUni };

    ghost first = { λ _. false };

    ghost can = { CanRead };

    fn can_read(&self) -> bool {
        StreamUniRemoteH3::can_read(self)
    }

    #[inline(always)]
    fn read_frame_from_buffer<'a>(
        &mut self,
        reader: &mut BufferReader<'a>,
    ) -> Result<Option<Frame<'a>>, ErrorCode> {
        StreamUniRemoteH3::read_frame_from_buffer(self, reader)
    }

    #[inline(always)]
    fn read_frame_async<S: AsyncRead>(
        &mut self,
        reading: &mut FrameReading,
        source: &mut S,
    ) -> Polled<Result<FrameOwned, IoReadError>> {
        StreamUniRemoteH3::read_frame_async(self, reading, source)
    }
}

impl ReadsFrames for StreamSession {
    ghost role = { InSession };

    ghost first = { λ _. false };

    ghost can = { λ _. Unit {0} };

    fn can_read(&self) -> bool {
        true
    }

    #[inline(always)]
    fn read_frame_from_buffer<'a>(
        &mut self,
        reader: &mut BufferReader<'a>,
    ) -> Result<Option<Frame<'a>>, ErrorCode> {
        StreamSession::read_frame_from_buffer(self, reader)
    }

    #[inline(always)]
    fn read_frame_async<S: AsyncRead>(
        &mut self,
        reading: &mut FrameReading,
        source: &mut S,
    ) -> Polled<Result<FrameOwned, IoReadError>> {
        StreamSession::read_frame_async(self, reading, source)
    }
}

/// The way a drive ended.
#[derive(Debug, Drop, PartialEq, Eq)]
pub enum Driven {
    /// The stream gives no more frames.
    Ended(IoReadError),
    /// The source was not ready.
    Waiting,
    /// All polls were made, and each took a frame, or skipped an unknown one or 4096 bytes of it.
    Spent,
    /// Memory allocation failed, for a payload or for a place in the list.
    NoMemory,
}

/// Polls the stream at most `polls` times, and appends each frame to `out`.
///
/// - `Ended(fault)`: the first fault. As after the poll that found it, the source is positioned
///   right after a refused frame, or after the bytes that decided, and nothing is held; if the
///   source gave no more bytes inside a frame, those received of it are held, or skipped if they
///   are the payload of an unknown frame.
/// - `Waiting`: the source was not ready.
/// - `Spent`: all polls were made, and each took a frame, or skipped an unknown one or 4096 bytes
///   of its payload.
/// - `NoMemory`: allocation failed for a payload of which no byte is held, or for a place in `out`,
///   which is full. The first is the case if `out` has places for `polls` more frames: it never
///   loses room.
///
/// After a poll that gave no frame and skipped nothing it does not poll again.
///
/// It is for a stream whose bytes are frames to its end: the stream of a request after its first
/// frame, of a response, or a control stream. It is not for a bidirectional stream that the peer
/// opened and that may be a session's, as it would read the bytes after the WebTransport frame,
/// which are the application's, as frames: `StreamBiRemoteH3::accept_async` accepts that first.
///
/// No result but `Ended` loses a byte, except those of unknown frames: what was there is the frames
/// that were appended and what is held and ahead now. After `Ended`, the frame or the head that was
/// refused is gone. It may be called again after each of them, with the same stream, reading and
/// list, and with the same source or another. With no polls it changes nothing. Requires that
/// frames may be read, as `can_read` reports.
pub fn drive<K: ReadsFrames, S: AsyncRead>(
    stream: &mut K,
    reading: &mut FrameReading,
    source: &mut S,
    out: &mut Vec<FrameOwned>,
    polls: u32,
) -> Driven
    requires { K.can stream.old }
    ensures can { K.can stream.new }
    ensures changes { ChangesFirst K.first stream.old stream.new }
    ensures unfinished { IsUnfinished reading.old → IsUnfinished reading.new }
    ensures appends { out.new.items ≡ out.old.items ++ drop (length out.old.items) out.new.items }
    ensures most { length (drop (length out.old.items) out.new.items) ≤ polls }
    ensures did { HasModel (S.model source.old) (S.model source.new)
        (DriveDid K.role result (K.first stream.old) (K.first stream.new)
        reading.old reading.new (drop (length out.old.items) out.new.items) polls) }
    ensures waits { HasModel (S.model source.old) (S.model source.new) (DriveWaits result) }
    ensures fewer { result ≢ Driven.Spent
        → length (drop (length out.old.items) out.new.items) < polls }
    ensures capacity { vec_capacity out.old ≤ vec_capacity out.new }
    // The list has no place left, or the head of a payload is held, and no byte of it.
    ensures memory { result ≡ Driven.NoMemory
        → (vec_capacity out.new ≤ vec_len out.new) ⊎ HoldsHead reading.new.taken }
    ensures none { polls ≡ 0
        → (result ≡ Driven.Spent) × (stream.new ≡ stream.old) × (reading.new ≡ reading.old)
        × (source.new ≡ source.old) × (out.new ≡ out.old) }
{
    for _turn in 0..polls {
        if let Err(_) = out.reserve(1) {
            return Driven::NoMemory;
        }
        match stream.read_frame_async(reading, source) {
            Polled::Ready(Ok(frame)) => out.push_reserved(frame),
            Polled::Ready(Err(fault)) => return Driven::Ended(fault),
            Polled::Pending => return Driven::Waiting,
            Polled::Again => {}
            Polled::NoMemory => return Driven::NoMemory,
        }
    }
    Driven::Spent
}
