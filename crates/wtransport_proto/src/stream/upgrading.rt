//! Polled upgrades of streams that this endpoint opened.
use crate::stream::bilocal::{StreamBiLocalH3, StreamBiLocalWT};
use crate::stream::types::{H3, WT};
use crate::stream::unilocal::{StreamUniLocalH3, StreamUniLocalQuic};
use crate::stream::{IoWriteError, Stream};
use wtp_core::bytes::{AsyncWrite, Polled, Stepped};
use wtp_core::ids::SessionId;
use wtp_wire::frame::FrameWriting;
use wtp_wire::stream_header::{HeaderWriting, StreamHeader};

/// Writes a WebTransport frame, poll by poll, and converts the stream to one of the session.
#[derive(Debug, Drop)]
pub struct BiUpgrading {
    pub(crate) stream: StreamBiLocalH3,
    pub(crate) session_id: SessionId,
    pub(crate) writing: FrameWriting<'static>,
}

impl BiUpgrading {
    ghost use Rattle.wtp_core.specs.Source.{HasModel};
    ghost use Rattle.wtransport_proto.specs.UpgradeSteps.{BiStepped, StepSends, bi_writing};

    /// Writes until all bytes are sent or the sink accepts no more, as `FrameWriting` does. Returns
    /// `Done` once all bytes are sent.
    ///
    /// Every other result returns the state. It counts the bytes sent, and may be polled again,
    /// with the same sink or another one.
    pub fn poll<W: AsyncWrite>(
        mut self,
        sink: &mut W,
    ) -> Stepped<Self, StreamBiLocalWT, IoWriteError>
        ensures stepped { BiStepped result self }
        ensures sends { HasModel (W.model sink.old) (W.model sink.new)
            (StepSends bi_writing result self.writing) }
    {
        match self.writing.poll(sink) {
            Polled::Ready(Ok(())) => Stepped::Done(Stream {
                kind: self.stream.kind,
                stage: WT {
                    session_id: self.session_id,
                },
            }),
            Polled::Ready(Err(fault)) => Stepped::Failed(self, fault),
            Polled::Pending => Stepped::Pending(self),
            Polled::NoMemory => Stepped::NoMemory(self),
            Polled::Again => unreachable!(),
        }
    }
}

/// Writes the header of a stream, poll by poll, and converts it to a stream of HTTP/3.
#[derive(Debug, Drop)]
pub struct UniUpgrading {
    pub(crate) stream: StreamUniLocalQuic,
    pub(crate) header: StreamHeader,
    pub(crate) writing: HeaderWriting,
}

impl UniUpgrading {
    ghost use Rattle.wtp_core.specs.Source.{HasModel};
    ghost use Rattle.wtransport_proto.specs.UpgradeSteps.{UniStepped, StepSends, uni_writing};

    /// Writes until all bytes are sent or the sink accepts no more, as `HeaderWriting` does.
    /// Returns `Done` once all bytes are sent.
    ///
    /// Every other result returns the state. It counts the bytes sent, and may be polled again,
    /// with the same sink or another one.
    pub fn poll<W: AsyncWrite>(
        mut self,
        sink: &mut W,
    ) -> Stepped<Self, StreamUniLocalH3, IoWriteError>
        ensures stepped { UniStepped result self }
        ensures sends { HasModel (W.model sink.old) (W.model sink.new)
            (StepSends uni_writing result self.writing) }
    {
        match self.writing.poll(sink) {
            Polled::Ready(Ok(())) => Stepped::Done(Stream {
                kind: self.stream.kind,
                stage: H3 {
                    header: self.header,
                    first_frame_done: false,
                },
            }),
            Polled::Ready(Err(fault)) => Stepped::Failed(self, fault),
            Polled::Pending => Stepped::Pending(self),
            Polled::NoMemory => Stepped::NoMemory(self),
            Polled::Again => unreachable!(),
        }
    }
}
