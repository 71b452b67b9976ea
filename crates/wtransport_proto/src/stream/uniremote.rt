//! Unidirectional streams that the peer opened.
ghost use Rattle.std.specs.Prelude.{◌≡◌, ◌↔◌, [], false, IsTrue};
ghost use Rattle.wtp_core.specs.Reader.{IsRest};
ghost use Rattle.wtp_core.specs.Cursor.{left_of, whole_of};
ghost use Rattle.wtp_core.specs.Source.{HasModel};
ghost use Rattle.wtp_core.specs.Polled.{PollsAtMost, WaitsAs};
ghost use Rattle.wtp_wire.specs.Front.{front};
ghost use Rattle.wtp_wire.specs.Held.{IsUnfinished};
ghost use Rattle.wtp_wire.specs.HeaderFront.{header_front};
ghost use Rattle.wtp_wire.specs.Rule.{RemoteUni};
ghost use Rattle.wtp_wire.specs.PastNumber.{past_number, past_two};
ghost use Rattle.wtp_wire.specs.Run.{skip_unknown};
ghost use Rattle.wtransport_proto.specs.Reading.{AnswersFrame, AnswersRun, ReaderIsAfter};
ghost use Rattle.wtransport_proto.specs.StreamPolling.{StreamPolled, StreamGiven};
ghost use Rattle.wtransport_proto.specs.Streams.{CanRead};
ghost use Rattle.wtransport_proto.specs.Upgrading.{AnswersUpgrade};

use crate::stream::reading::{self, Rule};
use crate::stream::types::{H3, Quic, UniRemote, WT};
use crate::stream::{IoReadError, Stream, UniAccepting, poll};
use wtp_core::bytes::{AsyncRead, BufferReader, BytesReader, Polled};
use wtp_core::error::ErrorCode;
use wtp_wire::frame::{Frame, FrameKind, FrameOwned, FrameReading};
use wtp_wire::rules::{StreamRole, fault_of};
use wtp_wire::stream_header::{StreamHeader, StreamKind};

/// A stream of QUIC.
pub type StreamUniRemoteQuic = Stream<UniRemote, Quic>;

/// A stream of HTTP/3, whose header was read.
pub type StreamUniRemoteH3 = Stream<UniRemote, H3<StreamHeader>>;

/// A stream of a WebTransport session.
pub type StreamUniRemoteWT = Stream<UniRemote, WT>;

/// A stream that may have been upgraded.
#[derive(Debug, Drop)]
pub enum MaybeUpgradeH3 {
    /// There were too few bytes for a header.
    Quic(StreamUniRemoteQuic),
    /// The header was read.
    H3(StreamUniRemoteH3),
}

impl StreamUniRemoteQuic {
    /// Creates a stream that the peer opened.
    pub fn accept_uni() -> Self {
        Stream {
            kind: UniRemote::default(),
            stage: Quic,
        }
    }

    /// Reads the stream's header as `StreamHeader::read` does.
    ///
    /// Returns `Quic` if there are too few bytes. The reader has then moved past the type if that is
    /// complete. On an error the stream is dropped:
    ///
    /// - `StreamCreation`: an unknown type was read. It must not be treated as a connection error
    ///   (RFC 9114, section 6.2).
    /// - `Id`: the WebTransport type and an invalid session ID were read.
    pub fn upgrade<'a, R: BytesReader<'a>>(
        self,
        reader: &mut R,
    ) -> Result<MaybeUpgradeH3, ErrorCode>
        ensures answer { AnswersUpgrade (header_front (R.left reader.old)) self result
            (R.left reader.new) }
        ensures none { result ≡ Ok (MaybeUpgradeH3.Quic self)
            → R.left reader.new ≡ past_number (R.left reader.old) }
        ensures rest { IsRest (R.left reader.new) (R.left reader.old) }
        ensures kept { R.kept reader.new ≡ R.kept reader.old }
    {
        match StreamHeader::read(reader)? {
            Some(header) => Ok(MaybeUpgradeH3::H3(Stream {
                kind: self.kind,
                stage: H3 {
                    header,
                    first_frame_done: false,
                },
            })),
            None => Ok(MaybeUpgradeH3::Quic(self)),
        }
    }

    /// Returns a state that reads the stream's header, poll by poll, as `upgrade` does.
    pub fn upgrade_async(self) -> UniAccepting
        ensures stream { result.stream ≡ self }
        ensures reading { result.reading ≡ [] }
    {
        UniAccepting {
            stream: self,
            reading: StreamHeader::read_async(),
        }
    }
}

impl StreamUniRemoteH3 {
    /// Returns whether frames may be read: the kind is not WebTransport, which is for `upgrade`.
    pub fn can_read(&self) -> bool
        ensures { IsTrue result ↔ CanRead self.now }
    {
        self.kind() != StreamKind::WebTransport
    }

    /// Reads the next frame. It does not allocate. Unknown frames are skipped whole. Requires that
    /// frames may be read, as `can_read` reports; the stream does not change, so that the next call
    /// may follow.
    ///
    /// Returns `None` if there are too few bytes. The reader has then moved past the unknown frames,
    /// and past those of the next two numbers that are complete. Errors:
    ///
    /// - `FrameUnexpected`: a frame was read that is not permitted here.
    /// - `Id`: a WebTransport frame with an invalid session ID was read.
    /// - `ExcessiveLoad`: a length above 4096 was read.
    #[inline(always)]
    pub fn read_frame<'a, R: BytesReader<'a>>(
        &mut self,
        reader: &mut R,
    ) -> Result<Option<Frame<'a>>, ErrorCode>
        requires { CanRead self.old }
        ensures answer { AnswersFrame RemoteUni false (front (skip_unknown (R.left reader.old)))
            result false (R.left reader.new) }
        ensures none { result ≡ Ok None
            → R.left reader.new ≡ past_two (skip_unknown (R.left reader.old)) }
        ensures rest { IsRest (R.left reader.new) (R.left reader.old) }
        ensures kept { R.kept reader.new ≡ R.kept reader.old }
        ensures same { self.new ≡ self.old }
        ensures readable { CanRead self.new }
    {
        reading::read_later_frame::<Self, R>(reader)
    }

    /// Reads the next frame as `read_frame` does, and moves past it. The reader does not move if
    /// this returns `None` or an error.
    #[inline(always)]
    pub fn read_frame_from_buffer<'a>(
        &mut self,
        reader: &mut BufferReader<'a>,
    ) -> Result<Option<Frame<'a>>, ErrorCode>
        requires { CanRead self.old }
        ensures run { AnswersRun RemoteUni false (left_of reader.old) result false
            (left_of reader.new) }
        ensures place { ReaderIsAfter RemoteUni false (left_of reader.old) result false
            (left_of reader.new) }
        ensures whole { whole_of reader.new ≡ whole_of reader.old }
        ensures same { self.new ≡ self.old }
        ensures readable { CanRead self.new }
    {
        reading::read_later_frame_from_buffer::<Self>(reader)
    }

    /// Reads the next frame, poll by poll, by the rules of `read_frame`.
    ///
    /// - `Ready(Ok(frame))`: the next frame. The source is positioned right after it.
    /// - `Ready(Err(H3(code)))`: the code that `read_frame` returns, after the bytes that decided;
    ///   or `Frame` if the source ended inside a frame.
    /// - `Ready(Err(IO(fault)))`: the source gave no more bytes; `ImmediateFin` if it ended and no
    ///   frame was begun.
    /// - `Pending`: the source was not ready. `NoMemory`: allocation failed for a payload.
    /// - `Again`: an unknown frame was skipped, or 4096 bytes of its payload.
    ///
    /// The reading holds the bytes received of a partial frame; those of an unknown one are held
    /// until its head is complete, and skipped from then on. It may be polled again after each of
    /// these, with the same source or another.
    pub fn read_frame_async<S: AsyncRead>(
        &mut self,
        reading: &mut FrameReading,
        source: &mut S,
    ) -> Polled<Result<FrameOwned, IoReadError>>
        requires { CanRead self.old }
        ensures was_unfinished { IsUnfinished reading.old }
        ensures unfinished { IsUnfinished reading.new }
        ensures given { StreamGiven RemoteUni result false false reading.old reading.new }
        ensures polled { HasModel (S.model source.old) (S.model source.new)
            (StreamPolled RemoteUni result false false reading.old reading.new) }
        ensures waits { HasModel (S.model source.old) (S.model source.new) (WaitsAs result) }
        ensures asks { HasModel (S.model source.old) (S.model source.new) (PollsAtMost 4112) }
        ensures same { self.new ≡ self.old }
        ensures readable { CanRead self.new }
    {
        poll::apply_rule::<Self>(false, reading.poll(source))
    }
}

impl Rule for StreamUniRemoteH3 {
    ghost use Rattle.wtp_wire.specs.Rule.{RemoteUni};

    ghost role = { RemoteUni };

    #[inline(always)]
    fn fault(first: bool, kind: FrameKind) -> Option<ErrorCode> {
        fault_of(StreamRole::UniRemote, first, kind)
    }
}
