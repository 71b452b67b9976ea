//! Polled writing of frames.
ghost use Rattle.std.specs.Prelude.{◌≡◌, ◌+◌, ◌<◌, ◌≤◌, ◌++◌, length, Ok};
ghost use Rattle.wtp_core.specs.Source.{HasModel};
ghost use Rattle.wtp_core.specs.Put.{Writing, unsent, GoesOn, IsSent, WritePolled};

use crate::frame::{Frame, FrameKind};
use std::fmt;
use std::marker::Model;
use wtp_core::bytes::{AsyncWrite, IoWriteError, Polled};
use wtp_core::ids::SessionId;
use wtp_core::polling::drain::drain;
use wtp_core::polling::encoded::VarintWriting;
use wtp_core::varint::VarInt;

impl<'a> Frame<'a> {
    ghost use Rattle.wtp_wire.specs.Wire.{wire};

    /// Returns a state that writes the frame to a sink, poll by poll, with each number in its
    /// shortest encoding.
    pub fn write_async(&self) -> FrameWriting<'_>
        ensures { result ≡ unsent (wire self.now) }
    {
        let second = match self.body.session() {
            Some(session_id) => session_id.into_varint(),
            None => VarInt::from_u64_unchecked(self.body.payload().len() as u64),
        };
        FrameWriting {
            head: VarintWriting::two(self.kind.id(), second),
            payload: self.body.payload(),
            payload_sent: 0,
        }
    }
}

impl FrameWriting<'static> {
    ghost use Rattle.wtp_wire.specs.Content.{WebTransportOf};
    ghost use Rattle.wtp_wire.specs.Wire.{wire};

    /// Returns a state that writes the WebTransport frame of this session. Nothing is sent yet.
    pub fn of_session(session_id: SessionId) -> Self
        ensures { result ≡ unsent (wire (WebTransportOf session_id)) }
    {
        let kind = FrameKind::WebTransport;
        FrameWriting {
            head: VarintWriting::two(kind.id(), session_id.into_varint()),
            payload: &[],
            payload_sent: 0,
        }
    }
}

/// Writes one frame to a sink, poll by poll.
///
/// It counts the bytes sent, and sends no byte twice. It does not allocate, but the sink may.
#[derive(Drop)]
pub struct FrameWriting<'a> {
    head: VarintWriting,
    payload: &'a [u8],
    payload_sent: usize,
}

// Prints the number of bytes sent of the first two numbers and of the payload.
impl fmt::Debug for FrameWriting<'_> {
    fn fmt<W: fmt::Write>(&self, f: &mut fmt::Formatter<W>) -> fmt::Result {
        f.debug_struct("FrameWriting")
            .field("head_sent", &self.head.sent_len())
            .field("payload_sent", &self.payload_sent)
            .finish_non_exhaustive()
    }
}

impl<'a> Model for FrameWriting<'a> {
    ghost Value = { Writing };

    ghost view = { λ s. record
        { bytes = s.head.bytes ++ s.payload.now; sent = s.head.sent + s.payload_sent } };

    ghost invariant = { λ s. (s.head.sent ≤ length s.head.bytes)
        × (s.payload_sent ≤ length s.payload.now)
        × (0 < s.payload_sent → s.head.sent ≡ length s.head.bytes) };
}

impl<'a> FrameWriting<'a> {
    /// Writes until all bytes are sent or the sink accepts no more.
    ///
    /// Returns `Ready(Ok(()))` once all bytes are sent, and so does every later poll, without a
    /// call of the sink. Otherwise returns what the sink reported: not ready (`Pending`), out of
    /// memory, stopped or not connected. It may be polled again after each of these, with the same
    /// sink or another one.
    pub fn poll<W: AsyncWrite>(&mut self, sink: &mut W) -> Polled<Result<(), IoWriteError>>
        ensures on { GoesOn self.old self.new }
        ensures whole { IsSent result self.new }
        ensures polled { HasModel (W.model sink.old) (W.model sink.new)
            (WritePolled result self.old self.new) }
        ensures finished { self.old.sent ≡ length self.old.bytes
            → (sink.new ≡ sink.old) × (result ≡ Polled.Ready (Ok tt)) }
    {
        match self.head.poll(sink) {
            Polled::Ready(Ok(())) => drain(sink, self.payload, &mut self.payload_sent),
            part => part,
        }
    }
}
