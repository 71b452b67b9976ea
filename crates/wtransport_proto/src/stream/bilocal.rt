//! Bidirectional streams that this end opened.
ghost use Rattle.std.specs.Prelude.{◌≡◌, ◌≢◌, ◌≤◌, ◌↔◌, true, false, length, Err, IsTrue, IfOk, IfErr, IsOk, OnOk, OnErr, Ok};
ghost use Rattle.wtp_core.specs.Reader.{IsRest};
ghost use Rattle.wtp_core.specs.Cursor.{left_of, whole_of};
ghost use Rattle.wtp_core.specs.Source.{HasModel};
ghost use Rattle.wtp_core.specs.Polled.{PollsAtMost, WaitsAs};
ghost use Rattle.wtp_core.specs.Writer.{PutsParts, LacksRoom};
ghost use Rattle.wtp_core.specs.BufferWriter.{room_in, loan_of, IsUnwritten, Wrote};
ghost use Rattle.wtp_core.specs.Put.{GoesOn, IsSent, WritePolled, unsent};
ghost use Rattle.wtp_wire.specs.Content.{WebTransportOf, kind_in};
ghost use Rattle.wtp_wire.specs.Front.{front};
ghost use Rattle.wtp_wire.specs.Held.{IsUnfinished};
ghost use Rattle.wtp_wire.specs.Wire.{parts_of, wire};
ghost use Rattle.wtp_wire.specs.Rule.{LocalBi};
ghost use Rattle.wtp_wire.specs.PastNumber.{past_two};
ghost use Rattle.wtp_wire.specs.Run.{skip_unknown};
ghost use Rattle.wtransport_proto.specs.Reading.{AnswersFrame, AnswersRun, ReaderIsAfter};
ghost use Rattle.wtransport_proto.specs.StreamPolling.{StreamPolled, StreamGiven};
ghost use Rattle.wtransport_proto.specs.StreamWriting.{WritesPlain, Begun};
ghost use Rattle.wtransport_proto.specs.Streams.{can_upgrade, request_of, session_of};
ghost use Rattle.wtransport_proto.specs.Upgrading.{write_answer};

use crate::stream::reading::{self, Rule};
use crate::stream::session::StreamSession;
use crate::stream::types::{Bi, BiLocal, H3, Quic, Session, WT};
use crate::stream::{BiUpgrading, IoReadError, IoWriteError, Stream, poll};
use wtp_core::bytes::{
    AsyncRead, AsyncWrite, BufferReader, BufferWriter, BytesReader, BytesWriter, EndOfBuffer,
    Polled, PutError,
};
use wtp_core::error::ErrorCode;
use wtp_core::ids::SessionId;
use wtp_fields::session::SessionRequest;
use wtp_wire::frame::{Frame, FrameKind, FrameOwned, FrameReading, FrameWriting};
use wtp_wire::rules::{StreamRole, fault_of};

/// A stream of QUIC.
pub type StreamBiLocalQuic = Stream<BiLocal, Quic>;

/// A stream of HTTP/3.
pub type StreamBiLocalH3 = Stream<BiLocal, H3>;

/// A stream of a WebTransport session.
pub type StreamBiLocalWT = Stream<BiLocal, WT>;

impl StreamBiLocalQuic {
    /// Creates a stream that this end opened.
    pub fn open_bi() -> Self {
        Stream {
            kind: BiLocal::default(),
            stage: Quic,
        }
    }

    /// Converts to a stream of HTTP/3 to which no frame was written.
    pub fn upgrade(self) -> StreamBiLocalH3
        ensures { can_upgrade result ≡ true }
    {
        Stream {
            kind: self.kind,
            stage: H3 {
                header: (),
                first_frame_done: false,
            },
        }
    }
}

impl StreamBiLocalH3 {
    /// Reads the next frame. It does not allocate. Unknown frames are skipped whole.
    ///
    /// Returns `None` if there are too few bytes. The reader has then moved past the unknown frames,
    /// and past those of the next two numbers that are complete. Errors:
    ///
    /// - `FrameUnexpected`: a frame was read that is not permitted here.
    /// - `Id`: a WebTransport frame with an invalid session ID was read.
    /// - `ExcessiveLoad`: a length above 4096 was read.
    #[inline(always)]
    pub fn read_frame<'a, R: BytesReader<'a>>(
        &self,
        reader: &mut R,
    ) -> Result<Option<Frame<'a>>, ErrorCode>
        ensures answer { AnswersFrame LocalBi false (front (skip_unknown (R.left reader.old)))
            result false (R.left reader.new) }
        ensures none { result ≡ Ok None
            → R.left reader.new ≡ past_two (skip_unknown (R.left reader.old)) }
        ensures rest { IsRest (R.left reader.new) (R.left reader.old) }
        ensures kept { R.kept reader.new ≡ R.kept reader.old }
    {
        reading::read_later_frame::<Self, R>(reader)
    }

    /// Reads the next frame as `read_frame` does, and moves past it. The reader does not move if
    /// this returns `None` or an error.
    #[inline(always)]
    pub fn read_frame_from_buffer<'a>(
        &self,
        reader: &mut BufferReader<'a>,
    ) -> Result<Option<Frame<'a>>, ErrorCode>
        ensures run { AnswersRun LocalBi false (left_of reader.old) result false
            (left_of reader.new) }
        ensures place { ReaderIsAfter LocalBi false (left_of reader.old) result false
            (left_of reader.new) }
        ensures whole { whole_of reader.new ≡ whole_of reader.old }
    {
        reading::read_later_frame_from_buffer::<Self>(reader)
    }

    /// Reads the next frame, poll by poll, by the rules of `read_frame`.
    ///
    /// - `Ready(Ok(frame))`: the next frame. The source is positioned right after it.
    /// - `Ready(Err(H3(code)))`: the code that `read_frame` returns, after the bytes that decided;
    ///   or `Frame` if the source ended inside a frame.
    /// - `Ready(Err(IO(fault)))`: the source gave no more bytes; `ImmediateFin` if it ended and no
    ///   frame was begun.
    /// - `Pending`: the source was not ready. `NoMemory`: allocation failed for a payload.
    /// - `Again`: an unknown frame was skipped, or 4096 bytes of its payload.
    ///
    /// The reading holds the bytes received of a partial frame; those of an unknown one are held
    /// until its head is complete, and skipped from then on. It may be polled again after each of
    /// these, with the same source or another.
    pub fn read_frame_async<S: AsyncRead>(
        &self,
        reading: &mut FrameReading,
        source: &mut S,
    ) -> Polled<Result<FrameOwned, IoReadError>>
        ensures was_unfinished { IsUnfinished reading.old }
        ensures unfinished { IsUnfinished reading.new }
        ensures given { StreamGiven LocalBi result false false reading.old reading.new }
        ensures polled { HasModel (S.model source.old) (S.model source.new)
            (StreamPolled LocalBi result false false reading.old reading.new) }
        ensures waits { HasModel (S.model source.old) (S.model source.new) (WaitsAs result) }
        ensures asks { HasModel (S.model source.old) (S.model source.new) (PollsAtMost 4112) }
    {
        poll::apply_rule::<Self>(false, reading.poll(source))
    }

    /// Writes a frame as `Frame::write` does, and consumes it. Requires that its kind is not
    /// WebTransport, which is for `upgrade`.
    ///
    /// A stream to which a frame was written cannot be upgraded any more. On an error the stream
    /// does not change, the frame is dropped, and the writer holds those of its parts before the
    /// one that it refused.
    pub fn write_frame<W: BytesWriter>(
        &mut self,
        frame: Frame<'_>,
        writer: &mut W,
    ) -> Result<(), PutError>
        requires { kind_in frame ≢ FrameKind.WebTransport }
        ensures parts { PutsParts W.grows (parts_of frame.entry) result (W.written writer.old)
            (W.room writer.old) (W.written writer.new) (W.room writer.new) }
        ensures full { result ≡ Err PutError.EndOfBuffer
            → LacksRoom (W.room writer.old) (length (wire frame.entry)) }
        ensures target { W.target writer.new ≡ W.target writer.old }
        ensures begun { OnOk result (can_upgrade self.new ≡ false) }
        ensures same { OnErr result (self.new ≡ self.old) }
    {
        frame.write(writer)?;
        self.stage.first_frame_done = true;
        Ok(())
    }

    /// Writes a complete frame as `Frame::write_to_buffer` does, with the condition of
    /// `write_frame` and its effect on the stream, and consumes it.
    ///
    /// Returns `EndOfBuffer` if the room is too small; then nothing is written, the stream does not
    /// change, and the frame is dropped.
    pub fn write_frame_to_buffer(
        &mut self,
        frame: Frame<'_>,
        writer: &mut BufferWriter<'_>,
    ) -> Result<(), EndOfBuffer>
        requires { kind_in frame ≢ FrameKind.WebTransport }
        ensures room { IsOk result ↔ (length (wire frame.entry) ≤ length (room_in writer.old)) }
        ensures ok { OnOk result (Wrote (wire frame.entry) writer.old writer.new) }
        ensures err { OnErr result (IsUnwritten writer.old writer.new) }
        ensures loan { loan_of writer.new ≡ loan_of writer.old }
        ensures begun { OnOk result (can_upgrade self.new ≡ false) }
        ensures same { OnErr result (self.new ≡ self.old) }
    {
        frame.write_to_buffer(writer)?;
        self.stage.first_frame_done = true;
        Ok(())
    }

    /// Writes a frame, poll by poll, as `FrameWriting` does. Requires that its kind is not
    /// WebTransport, which is for `upgrade_async`.
    ///
    /// A stream to which a complete frame was written cannot be upgraded any more; after every
    /// other result it has not changed. The condition still holds after each poll, so that the next
    /// one may follow.
    pub fn write_frame_async<W: AsyncWrite>(
        &mut self,
        writing: &mut FrameWriting<'_>,
        sink: &mut W,
    ) -> Polled<Result<(), IoWriteError>>
        requires { WritesPlain writing.old }
        ensures on { GoesOn writing.old writing.new }
        ensures whole { IsSent result writing.new }
        ensures polled { HasModel (W.model sink.old) (W.model sink.new)
            (WritePolled result writing.old writing.new) }
        ensures finished { writing.old.sent ≡ length writing.old.bytes
            → (sink.new ≡ sink.old) × (result ≡ Polled.Ready (Ok tt)) }
        ensures plain { WritesPlain writing.new }
        ensures begun { Begun result self.old self.new }
    {
        let answer = writing.poll(sink);
        if let Polled::Ready(Ok(())) = answer {
            self.stage.first_frame_done = true;
        }
        answer
    }

    /// Returns whether `upgrade` may be called: no write of a frame succeeded before.
    pub fn can_upgrade(&self) -> bool
        ensures { result ≡ can_upgrade self.now }
    {
        !self.stage.first_frame_done
    }

    /// Converts to a stream of this session by a WebTransport frame, which is written as
    /// `Frame::write` does. Requires that the stream can be upgraded, as `can_upgrade` reports.
    ///
    /// On an error the stream is returned unchanged, and the writer may hold the frame's type.
    pub fn upgrade<W: BytesWriter>(
        self,
        session_id: SessionId,
        writer: &mut W,
    ) -> Result<StreamBiLocalWT, (StreamBiLocalH3, PutError)>
        requires { IsTrue (can_upgrade self) }
        ensures session { IfOk result (λ s. session_of s ≡ session_id) }
        ensures handed_back { IfErr result (λ e. e.0 ≡ self) }
        ensures parts { PutsParts W.grows (parts_of (WebTransportOf session_id))
            (write_answer result) (W.written writer.old) (W.room writer.old) (W.written writer.new)
            (W.room writer.new) }
        ensures full { write_answer result ≡ Err PutError.EndOfBuffer
            → LacksRoom (W.room writer.old) (length (wire (WebTransportOf session_id))) }
        ensures target { W.target writer.new ≡ W.target writer.old }
    {
        match Frame::new_webtransport(session_id).write(writer) {
            Ok(()) => Ok(Stream {
                kind: self.kind,
                stage: WT { session_id },
            }),
            Err(error) => Err((self, error)),
        }
    }

    /// Returns the number of bytes that `upgrade` writes.
    pub fn upgrade_size(&self, session_id: SessionId) -> usize
        ensures { result ≡ length (wire (WebTransportOf session_id)) }
    {
        Frame::new_webtransport(session_id).write_size()
    }

    /// Returns a state that converts to a stream of this session, poll by poll, as `upgrade` does.
    /// Requires that the stream can be upgraded, as `can_upgrade` reports.
    pub fn upgrade_async(self, session_id: SessionId) -> BiUpgrading
        requires { IsTrue (can_upgrade self) }
        ensures stream { result.stream ≡ self }
        ensures session { result.session_id ≡ session_id }
        ensures writing { result.writing ≡ unsent (wire (WebTransportOf session_id)) }
    {
        BiUpgrading {
            stream: self,
            session_id,
            writing: FrameWriting::of_session(session_id),
        }
    }

    /// Converts to the stream of a session, which this request is for.
    pub fn into_session(self, session_request: SessionRequest) -> StreamSession
        ensures { request_of result ≡ session_request }
    {
        Stream {
            kind: Bi,
            stage: Session { session_request },
        }
    }
}

impl Rule for StreamBiLocalH3 {
    ghost use Rattle.wtp_wire.specs.Rule.{LocalBi};

    ghost role = { LocalBi };

    #[inline(always)]
    fn fault(first: bool, kind: FrameKind) -> Option<ErrorCode> {
        fault_of(StreamRole::BiLocal, first, kind)
    }
}
