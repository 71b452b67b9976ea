//! Streams that carry the request for a session, and its response.
ghost use Rattle.std.specs.Prelude.{◌≡◌, ◌≤◌, ◌↔◌, false, length, Err, IsOk, OnOk, OnErr, Ok};
ghost use Rattle.wtp_core.specs.Reader.{IsRest};
ghost use Rattle.wtp_core.specs.Cursor.{left_of, whole_of};
ghost use Rattle.wtp_core.specs.Source.{HasModel};
ghost use Rattle.wtp_core.specs.Polled.{PollsAtMost, WaitsAs};
ghost use Rattle.wtp_core.specs.Writer.{PutsParts, LacksRoom};
ghost use Rattle.wtp_core.specs.BufferWriter.{room_in, loan_of, IsUnwritten, Wrote};
ghost use Rattle.wtp_core.specs.Put.{GoesOn, IsSent, WritePolled};
ghost use Rattle.wtp_wire.specs.Front.{front};
ghost use Rattle.wtp_wire.specs.Held.{IsUnfinished};
ghost use Rattle.wtp_wire.specs.Wire.{parts_of, wire};
ghost use Rattle.wtp_wire.specs.Rule.{InSession};
ghost use Rattle.wtp_wire.specs.PastNumber.{past_two};
ghost use Rattle.wtp_wire.specs.Run.{skip_unknown};
ghost use Rattle.wtransport_proto.specs.Reading.{AnswersFrame, AnswersRun, ReaderIsAfter};
ghost use Rattle.wtransport_proto.specs.StreamPolling.{StreamPolled, StreamGiven};
ghost use Rattle.wtransport_proto.specs.Streams.{request_of};

use crate::stream::reading::{self, Rule};
use crate::stream::types::{Bi, Session};
use crate::stream::{IoReadError, IoWriteError, Stream, poll};
use wtp_core::bytes::{
    AsyncRead, AsyncWrite, BufferReader, BufferWriter, BytesReader, BytesWriter, EndOfBuffer,
    Polled, PutError,
};
use wtp_core::error::ErrorCode;
use wtp_fields::session::SessionRequest;
use wtp_wire::frame::{Frame, FrameKind, FrameOwned, FrameReading, FrameWriting};
use wtp_wire::rules::{StreamRole, fault_of};

/// A stream that carries the request for a session, and its response.
pub type StreamSession = Stream<Bi, Session>;

impl StreamSession {
    /// Reads the next frame. It does not allocate. Unknown frames are skipped whole.
    ///
    /// Returns `None` if there are too few bytes. The reader has then moved past the unknown frames,
    /// and past those of the next two numbers that are complete. Errors:
    ///
    /// - `FrameUnexpected`: a frame was read that is not permitted here.
    /// - `Id`: a WebTransport frame with an invalid session ID was read.
    /// - `ExcessiveLoad`: a length above 4096 was read.
    #[inline(always)]
    pub fn read_frame<'a, R: BytesReader<'a>>(
        &self,
        reader: &mut R,
    ) -> Result<Option<Frame<'a>>, ErrorCode>
        ensures answer { AnswersFrame InSession false (front (skip_unknown (R.left reader.old)))
            result false (R.left reader.new) }
        ensures none { result ≡ Ok None
            → R.left reader.new ≡ past_two (skip_unknown (R.left reader.old)) }
        ensures rest { IsRest (R.left reader.new) (R.left reader.old) }
        ensures kept { R.kept reader.new ≡ R.kept reader.old }
    {
        reading::read_later_frame::<Self, R>(reader)
    }

    /// Reads the next frame as `read_frame` does, and moves past it. The reader does not move if
    /// this returns `None` or an error.
    #[inline(always)]
    pub fn read_frame_from_buffer<'a>(
        &self,
        reader: &mut BufferReader<'a>,
    ) -> Result<Option<Frame<'a>>, ErrorCode>
        ensures run { AnswersRun InSession false (left_of reader.old) result false
            (left_of reader.new) }
        ensures place { ReaderIsAfter InSession false (left_of reader.old) result false
            (left_of reader.new) }
        ensures whole { whole_of reader.new ≡ whole_of reader.old }
    {
        reading::read_later_frame_from_buffer::<Self>(reader)
    }

    /// Reads the next frame, poll by poll, by the rules of `read_frame`.
    ///
    /// - `Ready(Ok(frame))`: the next frame. The source is positioned right after it.
    /// - `Ready(Err(H3(code)))`: the code that `read_frame` returns, after the bytes that decided;
    ///   or `Frame` if the source ended inside a frame.
    /// - `Ready(Err(IO(fault)))`: the source gave no more bytes; `ImmediateFin` if it ended and no
    ///   frame was begun.
    /// - `Pending`: the source was not ready. `NoMemory`: allocation failed for a payload.
    /// - `Again`: an unknown frame was skipped, or 4096 bytes of its payload.
    ///
    /// The reading holds the bytes received of a partial frame; those of an unknown one are held
    /// until its head is complete, and skipped from then on. It may be polled again after each of
    /// these, with the same source or another.
    pub fn read_frame_async<S: AsyncRead>(
        &self,
        reading: &mut FrameReading,
        source: &mut S,
    ) -> Polled<Result<FrameOwned, IoReadError>>
        ensures was_unfinished { IsUnfinished reading.old }
        ensures unfinished { IsUnfinished reading.new }
        ensures given { StreamGiven InSession result false false reading.old reading.new }
        ensures polled { HasModel (S.model source.old) (S.model source.new)
            (StreamPolled InSession result false false reading.old reading.new) }
        ensures waits { HasModel (S.model source.old) (S.model source.new) (WaitsAs result) }
        ensures asks { HasModel (S.model source.old) (S.model source.new) (PollsAtMost 4112) }
    {
        poll::apply_rule::<Self>(false, reading.poll(source))
    }

    /// Writes a frame as `Frame::write` does, and consumes it.
    ///
    /// On an error the frame is dropped, and the writer holds those of its parts before the one
    /// that it refused.
    pub fn write_frame<W: BytesWriter>(
        &self,
        frame: Frame<'_>,
        writer: &mut W,
    ) -> Result<(), PutError>
        ensures parts { PutsParts W.grows (parts_of frame.entry) result (W.written writer.old)
            (W.room writer.old) (W.written writer.new) (W.room writer.new) }
        ensures full { result ≡ Err PutError.EndOfBuffer
            → LacksRoom (W.room writer.old) (length (wire frame.entry)) }
        ensures target { W.target writer.new ≡ W.target writer.old }
    {
        frame.write(writer)
    }

    /// Writes a complete frame as `Frame::write_to_buffer` does, and consumes it.
    ///
    /// Returns `EndOfBuffer` if the room is too small; then nothing is written, and the frame is
    /// dropped.
    pub fn write_frame_to_buffer(
        &self,
        frame: Frame<'_>,
        writer: &mut BufferWriter<'_>,
    ) -> Result<(), EndOfBuffer>
        ensures room { IsOk result ↔ (length (wire frame.entry) ≤ length (room_in writer.old)) }
        ensures ok { OnOk result (Wrote (wire frame.entry) writer.old writer.new) }
        ensures err { OnErr result (IsUnwritten writer.old writer.new) }
        ensures loan { loan_of writer.new ≡ loan_of writer.old }
    {
        frame.write_to_buffer(writer)
    }

    /// Writes a frame, poll by poll, as `FrameWriting` does.
    pub fn write_frame_async<W: AsyncWrite>(
        &self,
        writing: &mut FrameWriting<'_>,
        sink: &mut W,
    ) -> Polled<Result<(), IoWriteError>>
        ensures on { GoesOn writing.old writing.new }
        ensures whole { IsSent result writing.new }
        ensures polled { HasModel (W.model sink.old) (W.model sink.new)
            (WritePolled result writing.old writing.new) }
        ensures finished { writing.old.sent ≡ length writing.old.bytes
            → (sink.new ≡ sink.old) × (result ≡ Polled.Ready (Ok tt)) }
    {
        writing.poll(sink)
    }

    /// Returns the request for the session.
    pub fn request(&self) -> &SessionRequest
        ensures { result.now ≡ request_of self.now }
    {
        &self.stage.session_request
    }
}

impl Rule for StreamSession {
    ghost use Rattle.wtp_wire.specs.Rule.{InSession};

    ghost role = { InSession };

    #[inline(always)]
    fn fault(first: bool, kind: FrameKind) -> Option<ErrorCode> {
        fault_of(StreamRole::Session, first, kind)
    }
}
