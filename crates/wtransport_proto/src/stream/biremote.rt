//! Bidirectional streams that the peer opened.
ghost use Rattle.std.specs.Prelude.{◌≡◌, ◌≤◌, ◌↔◌, true, length, Err, IsOk, OnOk, OnErr, Ok};
ghost use Rattle.wtp_core.specs.Reader.{IsRest};
ghost use Rattle.wtp_core.specs.Cursor.{left_of, whole_of};
ghost use Rattle.wtp_core.specs.Source.{HasModel};
ghost use Rattle.wtp_core.specs.Polled.{PollsAtMost, WaitsAs};
ghost use Rattle.wtp_core.specs.Writer.{PutsParts, LacksRoom};
ghost use Rattle.wtp_core.specs.BufferWriter.{room_in, loan_of, IsUnwritten, Wrote};
ghost use Rattle.wtp_core.specs.Put.{GoesOn, IsSent, WritePolled};
ghost use Rattle.wtp_wire.specs.Front.{front};
ghost use Rattle.wtp_wire.specs.Held.{IsUnfinished};
ghost use Rattle.wtp_wire.specs.Wire.{parts_of, wire};
ghost use Rattle.wtp_wire.specs.Rule.{RemoteBi};
ghost use Rattle.wtransport_proto.specs.Driving.{ChangesFirst};
ghost use Rattle.wtp_wire.specs.PastNumber.{past_two};
ghost use Rattle.wtp_wire.specs.Run.{skip_unknown};
ghost use Rattle.wtransport_proto.specs.Reading.{AnswersFrame, AnswersRun, ReaderIsAfter};
ghost use Rattle.wtransport_proto.specs.StreamPolling.{StreamPolled, StreamGiven};
ghost use Rattle.wtransport_proto.specs.Streams.{first_of, request_of, session_of};

use crate::stream::reading::{self, Rule};
use crate::stream::session::StreamSession;
use crate::stream::types::{Bi, BiRemote, H3, Quic, Session, WT};
use crate::stream::{BiAccepting, IoReadError, IoWriteError, Stream, poll};
use wtp_core::bytes::{
    AsyncRead, AsyncWrite, BufferReader, BufferWriter, BytesReader, BytesWriter, EndOfBuffer,
    Polled, PutError,
};
use wtp_core::error::ErrorCode;
use wtp_core::ids::SessionId;
use wtp_fields::session::SessionRequest;
use wtp_wire::frame::{Frame, FrameKind, FrameOwned, FrameReading, FrameWriting};
use wtp_wire::rules::{StreamRole, fault_of};

/// A stream of QUIC.
pub type StreamBiRemoteQuic = Stream<BiRemote, Quic>;

/// A stream of HTTP/3.
pub type StreamBiRemoteH3 = Stream<BiRemote, H3>;

/// A stream of a WebTransport session.
pub type StreamBiRemoteWT = Stream<BiRemote, WT>;

impl StreamBiRemoteQuic {
    /// Creates a stream that the peer opened.
    pub fn accept_bi() -> Self {
        Stream {
            kind: BiRemote::default(),
            stage: Quic,
        }
    }

    /// Converts to a stream of HTTP/3 of which no frame was read.
    pub fn upgrade(self) -> StreamBiRemoteH3
        ensures { first_of result ≡ true }
    {
        Stream {
            kind: self.kind,
            stage: H3 {
                header: (),
                first_frame_done: false,
            },
        }
    }
}

impl StreamBiRemoteH3 {
    /// Reads the next frame. It does not allocate. Unknown frames are skipped whole.
    ///
    /// Returns `None` if there are too few bytes. The reader has then moved past the unknown frames,
    /// and past those of the next two numbers that are complete. Errors:
    ///
    /// - `FrameUnexpected` or `Frame`: a frame was read that is not permitted here.
    /// - `Id`: a WebTransport frame with an invalid session ID was read.
    /// - `ExcessiveLoad`: a length above 4096 was read.
    ///
    /// A WebTransport frame is permitted only as the first one. A refused frame counts; an unknown
    /// one and one that could not be read do not.
    #[inline(always)]
    pub fn read_frame<'a, R: BytesReader<'a>>(
        &mut self,
        reader: &mut R,
    ) -> Result<Option<Frame<'a>>, ErrorCode>
        ensures changes { ChangesFirst first_of self.old self.new }
        ensures answer { AnswersFrame RemoteBi (first_of self.old)
            (front (skip_unknown (R.left reader.old))) result (first_of self.new)
            (R.left reader.new) }
        ensures none { result ≡ Ok None
            → R.left reader.new ≡ past_two (skip_unknown (R.left reader.old)) }
        ensures rest { IsRest (R.left reader.new) (R.left reader.old) }
        ensures kept { R.kept reader.new ≡ R.kept reader.old }
    {
        reading::read_frame::<Self, R>(&mut self.stage.first_frame_done, reader)
    }

    /// Reads the next frame as `read_frame` does, and moves past it. The reader does not move if
    /// this returns `None` or an error.
    ///
    /// After an error the next frame counts as the first one as after `read_frame`: a refused frame
    /// was the first, although the reader is still before it, so a WebTransport frame is not
    /// permitted any more; an invalid session ID or a length above 4096 leaves that unchanged.
    #[inline(always)]
    pub fn read_frame_from_buffer<'a>(
        &mut self,
        reader: &mut BufferReader<'a>,
    ) -> Result<Option<Frame<'a>>, ErrorCode>
        ensures changes { ChangesFirst first_of self.old self.new }
        ensures run { AnswersRun RemoteBi (first_of self.old) (left_of reader.old) result
            (first_of self.new) (left_of reader.new) }
        ensures place { ReaderIsAfter RemoteBi (first_of self.old) (left_of reader.old) result
            (first_of self.new) (left_of reader.new) }
        ensures whole { whole_of reader.new ≡ whole_of reader.old }
    {
        reading::read_frame_from_buffer::<Self>(&mut self.stage.first_frame_done, reader)
    }

    /// Reads the next frame, poll by poll, by the rules of `read_frame`.
    ///
    /// - `Ready(Ok(frame))`: the next frame. The source is positioned right after it.
    /// - `Ready(Err(H3(code)))`: the code that `read_frame` returns, after the bytes that decided;
    ///   or `Frame` if the source ended inside a frame.
    /// - `Ready(Err(IO(fault)))`: the source gave no more bytes; `ImmediateFin` if it ended and no
    ///   frame was begun.
    /// - `Pending`: the source was not ready. `NoMemory`: allocation failed for a payload.
    /// - `Again`: an unknown frame was skipped, or 4096 bytes of its payload.
    ///
    /// The reading holds the bytes received of a partial frame; those of an unknown one are held
    /// until its head is complete, and skipped from then on. It may be polled again after each of
    /// these, with the same source or another.
    #[inline(always)]
    pub fn read_frame_async<S: AsyncRead>(
        &mut self,
        reading: &mut FrameReading,
        source: &mut S,
    ) -> Polled<Result<FrameOwned, IoReadError>>
        ensures changes { ChangesFirst first_of self.old self.new }
        ensures was_unfinished { IsUnfinished reading.old }
        ensures unfinished { IsUnfinished reading.new }
        ensures given { StreamGiven RemoteBi result (first_of self.old) (first_of self.new)
            reading.old reading.new }
        ensures polled { HasModel (S.model source.old) (S.model source.new)
            (StreamPolled RemoteBi result (first_of self.old) (first_of self.new) reading.old
            reading.new) }
        ensures waits { HasModel (S.model source.old) (S.model source.new) (WaitsAs result) }
        ensures asks { HasModel (S.model source.old) (S.model source.new) (PollsAtMost 4112) }
    {
        let first = !self.stage.first_frame_done;
        let answer = reading.poll(source);
        if let Polled::Ready(Ok(_)) = answer {
            self.stage.first_frame_done = true;
        }
        poll::apply_rule::<Self>(first, answer)
    }

    /// Returns a state that reads the first frame, poll by poll, by the rules of `read_frame`: of a
    /// session, or of a request. The reading may hold bytes of it already.
    ///
    /// A server accepts each bidirectional stream that its peer opened so: a reader of frames would
    /// take the bytes after a WebTransport frame, which are the application's, for frames.
    pub fn accept_async(self, reading: FrameReading) -> BiAccepting
        ensures stream { result.stream ≡ self }
        ensures reading { result.reading ≡ reading }
    {
        BiAccepting {
            stream: self,
            reading,
        }
    }

    /// Writes a frame as `Frame::write` does, and consumes it.
    ///
    /// On an error the frame is dropped, and the writer holds those of its parts before the one
    /// that it refused.
    pub fn write_frame<W: BytesWriter>(
        &self,
        frame: Frame<'_>,
        writer: &mut W,
    ) -> Result<(), PutError>
        ensures parts { PutsParts W.grows (parts_of frame.entry) result (W.written writer.old)
            (W.room writer.old) (W.written writer.new) (W.room writer.new) }
        ensures full { result ≡ Err PutError.EndOfBuffer
            → LacksRoom (W.room writer.old) (length (wire frame.entry)) }
        ensures target { W.target writer.new ≡ W.target writer.old }
    {
        frame.write(writer)
    }

    /// Writes a complete frame as `Frame::write_to_buffer` does, and consumes it.
    ///
    /// Returns `EndOfBuffer` if the room is too small; then nothing is written, and the frame is
    /// dropped.
    pub fn write_frame_to_buffer(
        &self,
        frame: Frame<'_>,
        writer: &mut BufferWriter<'_>,
    ) -> Result<(), EndOfBuffer>
        ensures room { IsOk result ↔ (length (wire frame.entry) ≤ length (room_in writer.old)) }
        ensures ok { OnOk result (Wrote (wire frame.entry) writer.old writer.new) }
        ensures err { OnErr result (IsUnwritten writer.old writer.new) }
        ensures loan { loan_of writer.new ≡ loan_of writer.old }
    {
        frame.write_to_buffer(writer)
    }

    /// Writes a frame, poll by poll, as `FrameWriting` does.
    pub fn write_frame_async<W: AsyncWrite>(
        &self,
        writing: &mut FrameWriting<'_>,
        sink: &mut W,
    ) -> Polled<Result<(), IoWriteError>>
        ensures on { GoesOn writing.old writing.new }
        ensures whole { IsSent result writing.new }
        ensures polled { HasModel (W.model sink.old) (W.model sink.new)
            (WritePolled result writing.old writing.new) }
        ensures finished { writing.old.sent ≡ length writing.old.bytes
            → (sink.new ≡ sink.old) × (result ≡ Polled.Ready (Ok tt)) }
    {
        writing.poll(sink)
    }

    /// Converts to a stream of this session: the session of the WebTransport frame that was read as
    /// the first one.
    pub fn upgrade(self, session_id: SessionId) -> StreamBiRemoteWT
        ensures { session_of result ≡ session_id }
    {
        Stream {
            kind: self.kind,
            stage: WT { session_id },
        }
    }

    /// Converts to the stream of a session, which this request is for.
    pub fn into_session(self, session_request: SessionRequest) -> StreamSession
        ensures { request_of result ≡ session_request }
    {
        Stream {
            kind: Bi,
            stage: Session { session_request },
        }
    }
}

impl Rule for StreamBiRemoteH3 {
    ghost use Rattle.wtp_wire.specs.Rule.{RemoteBi};

    ghost role = { RemoteBi };

    #[inline(always)]
    fn fault(first: bool, kind: FrameKind) -> Option<ErrorCode> {
        fault_of(StreamRole::BiRemote, first, kind)
    }
}
