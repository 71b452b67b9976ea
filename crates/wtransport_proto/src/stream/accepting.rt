//! Polled reading of the start of a stream that the peer opened: the header of a unidirectional
//! stream, or the first frame of a bidirectional one.
use crate::stream::biremote::{StreamBiRemoteH3, StreamBiRemoteWT};
use crate::stream::error::stream_fault;
use crate::stream::types::H3;
use crate::stream::uniremote::{StreamUniRemoteH3, StreamUniRemoteQuic};
use crate::stream::{IoReadError, Stream};
use wtp_core::bytes::{AsyncRead, Polled, Stepped};
use wtp_core::error::ErrorCode;
use wtp_wire::frame::{FrameKind, FrameOwned, FrameReading};
use wtp_wire::stream_header;
use wtp_wire::stream_header::HeaderReading;

/// Reads the header of a unidirectional stream, poll by poll, and converts the stream to one of
/// HTTP/3.
#[derive(Debug, Drop)]
pub struct UniAccepting {
    pub(crate) stream: StreamUniRemoteQuic,
    pub(crate) reading: HeaderReading,
}

impl UniAccepting {
    ghost use Rattle.wtp_core.specs.Source.{HasModel};
    ghost use Rattle.wtp_core.specs.Polled.{IsPaced, PollsAtMost};
    ghost use Rattle.wtransport_proto.specs.UpgradeSteps.{AcceptPolled, AcceptWaits, AcceptGiven};

    /// Reads until the header is complete or the source gives no more. Calls the source at most 16
    /// times, and at most once more than it gives bytes; does not allocate. Returns `Done` once the
    /// header is read; the source is then positioned right after it.
    ///
    /// Every other result returns the state. After `Pending`, or if the source gave no more bytes,
    /// it holds the bytes received; after an invalid header it is reset. `Failed` contains:
    ///
    /// - `StreamCreation` after an unknown type, which must not be treated as a connection error
    ///   (RFC 9114, section 6.2);
    /// - `Id` after the WebTransport type and an invalid session ID;
    /// - `Frame` if the source ended inside the header, which must not end the connection: a
    ///   unidirectional stream may be closed or reset before its header is complete (RFC 9114,
    ///   section 6.2);
    /// - or the error of the source.
    pub fn poll<S: AsyncRead>(
        mut self,
        source: &mut S,
    ) -> Stepped<Self, StreamUniRemoteH3, IoReadError>
        ensures given { AcceptGiven result self }
        ensures polled { HasModel (S.model source.old) (S.model source.new)
            (AcceptPolled result self.reading) }
        ensures waits { HasModel (S.model source.old) (S.model source.new) (AcceptWaits result) }
        ensures asks { HasModel (S.model source.old) (S.model source.new) (PollsAtMost 16) }
        ensures paced { HasModel (S.model source.old) (S.model source.new) IsPaced }
    {
        match self.reading.poll(source) {
            Polled::Ready(Ok(header)) => Stepped::Done(Stream {
                kind: self.stream.kind,
                stage: H3 {
                    header,
                    first_frame_done: false,
                },
            }),
            Polled::Ready(Err(stream_header::IoReadError::Parse(fault))) => {
                Stepped::Failed(self, IoReadError::H3(ErrorCode::from(fault)))
            }
            Polled::Ready(Err(stream_header::IoReadError::IO(fault))) => {
                Stepped::Failed(self, stream_fault(fault))
            }
            Polled::Pending => Stepped::Pending(self),
            Polled::NoMemory | Polled::Again => unreachable!(),
        }
    }
}

/// Reads the start of a bidirectional stream, poll by poll, to find out whether it is a stream of a
/// WebTransport session or that of a request.
#[derive(Debug, Drop)]
pub struct BiAccepting {
    pub(crate) stream: StreamBiRemoteH3,
    pub(crate) reading: FrameReading,
}

/// The result of a poll of [`BiAccepting`].
#[derive(Debug, Drop)]
pub enum BiAccepted {
    /// A WebTransport frame came first. The bytes after it are application data, not frames.
    WebTransport(StreamBiRemoteWT),
    /// The stream of a request, an empty reading state, and the first HEADERS frame.
    Request(StreamBiRemoteH3, FrameReading, FrameOwned),
    /// A frame was skipped, or 4096 bytes of its payload. Poll again at once.
    Again(BiAccepting),
    /// The source was not ready.
    Pending(BiAccepting),
    /// Memory allocation failed for a payload.
    NoMemory(BiAccepting),
    /// The stream failed with this error.
    Failed(BiAccepting, IoReadError),
}

impl BiAccepting {
    ghost use Rattle.std.specs.Prelude.{◌≡◌, Bool, None};
    ghost use Rattle.wtp_core.specs.Source.{HasModel};
    ghost use Rattle.wtp_core.specs.Polled.{PollsAtMost};
    ghost use Rattle.wtp_wire.specs.Content.{kind_in};
    ghost use Rattle.wtp_wire.specs.Held.{IsUnfinished};
    ghost use Rattle.wtp_wire.specs.Rule.{RemoteBi, rule};
    ghost use Rattle.wtransport_proto.specs.Accepting.{BiAcceptPolled, BiAcceptWaits, BiAcceptGiven, Judges, held_in};
    ghost use Rattle.wtransport_proto.specs.Streams.{first_of};

    /// Reads at most one frame, in at most 4112 calls to the source.
    ///
    /// - `WebTransport(stream)`: a WebTransport frame was read, and no frame of a known or reserved
    ///   type before it. The stream is converted to one of the session. The source is positioned
    ///   right after the frame.
    /// - `Request(stream, reading, frame)`: the first HEADERS frame was read. The source is
    ///   positioned right after it.
    /// - `Again`: a frame of a reserved or unknown type was skipped (RFC 9114, sections 7.2.8 and
    ///   9), or 4096 bytes of the payload of an unknown one. A WebTransport frame is not permitted
    ///   after one of a reserved type.
    /// - `Pending`: the source was not ready.
    /// - `NoMemory`: allocation failed for a payload.
    /// - `Failed(_, H3(code))`: the code that `read_frame` of the stream returns; `Frame` if the
    ///   source ended inside a frame; `FrameUnexpected` if a DATA frame came before the first
    ///   HEADERS frame (RFC 9114, section 4.1). The source is positioned right after the frame,
    ///   right after its head if that is invalid, or at the end.
    /// - `Failed(_, IO(error))`: the source gave no more bytes. The error is `ImmediateFin` if the
    ///   source ended and no frame was begun.
    ///
    /// Each returned state holds the bytes received of a partial frame; those of an unknown one are
    /// held until its head is complete, and skipped from then on. It may be polled again, with the
    /// same source or another one. `Failed` leaves the stream as `read_frame_async` does: a frame that
    /// was not allowed counts as read.
    pub fn poll<S: AsyncRead>(mut self, source: &mut S) -> BiAccepted
        ensures was_unfinished { IsUnfinished self.reading }
        ensures unfinished { IsUnfinished (held_in result) }
        ensures given { BiAcceptGiven result (first_of self.stream) self.reading }
        ensures polled { HasModel (S.model source.old) (S.model source.new)
            (BiAcceptPolled result (first_of self.stream) self.reading) }
        ensures waits { HasModel (S.model source.old) (S.model source.new) (BiAcceptWaits result) }
        ensures asks { HasModel (S.model source.old) (S.model source.new) (PollsAtMost 4112) }
    {
        match self.stream.read_frame_async(&mut self.reading, source) {
            Polled::Ready(Ok(frame)) => self.classify(frame),
            Polled::Ready(Err(fault)) => BiAccepted::Failed(self, fault),
            Polled::Again => BiAccepted::Again(self),
            Polled::Pending => BiAccepted::Pending(self),
            Polled::NoMemory => BiAccepted::NoMemory(self),
        }
    }

    // Returns the result for a frame that the stream allows.
    fn classify(self, frame: FrameOwned) -> BiAccepted
        requires { (first : Bool) × (rule RemoteBi first (kind_in frame) ≡ None) }
        ensures { Judges result self frame.entry }
    {
        match frame.kind() {
            FrameKind::WebTransport => {
                let Some(session_id) = frame.session_id() else {
                    unreachable!()
                };
                BiAccepted::WebTransport(self.stream.upgrade(session_id))
            }
            FrameKind::Headers => BiAccepted::Request(self.stream, self.reading, frame),
            FrameKind::Exercise(_) => BiAccepted::Again(self),
            FrameKind::Data => {
                BiAccepted::Failed(self, IoReadError::H3(ErrorCode::FrameUnexpected))
            }
            _ => unreachable!(),
        }
    }
}
