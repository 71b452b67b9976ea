//! Polled writing of a variable-length integer or a buffer.
ghost use Rattle.std.specs.Prelude.{◌≡◌, ◌≤◌, length, Ok};
ghost use Rattle.wtp_core.specs.Source.{HasModel};
ghost use Rattle.wtp_core.specs.Varint.{shortest};
ghost use Rattle.wtp_core.specs.Put.{Writing, unsent, GoesOn, IsSent, WritePolled};

use crate::bytes::error::IoWriteError;
use crate::bytes::poll::Polled;
use crate::bytes::sink::AsyncWrite;
use crate::polling::drain::drain;
use crate::polling::encoded::VarintWriting;
use crate::varint::VarInt;
use std::marker::Model;

/// Writes the shortest encoding of a variable-length integer (RFC 9000, section 16), poll by poll.
///
/// It counts the bytes sent, and sends none of them twice.
#[derive(Debug, Drop)]
pub struct PutVarint {
    encoded: VarintWriting,
}

impl Model for PutVarint {
    ghost Value = { Writing };

    ghost view = { λ s. s.encoded };
}

impl PutVarint {
    /// Creates a state that has sent nothing.
    pub fn new(varint: VarInt) -> Self
        ensures { result ≡ unsent (shortest varint) }
    {
        PutVarint {
            encoded: VarintWriting::one(varint),
        }
    }

    /// Writes until all bytes are sent or the sink accepts no more.
    ///
    /// Returns `Ready(Ok(()))` once all bytes are sent, and so does every later poll, without a
    /// call of the sink. Otherwise returns what the sink reported: not ready (`Pending`), out of
    /// memory, stopped or not connected. It may be polled again after each of these.
    pub fn poll<W: AsyncWrite>(&mut self, sink: &mut W) -> Polled<Result<(), IoWriteError>>
        ensures on { GoesOn self.old self.new }
        ensures whole { IsSent result self.new }
        ensures polled { HasModel (W.model sink.old) (W.model sink.new)
            (WritePolled result self.old self.new) }
        ensures finished { self.old.sent ≡ length self.old.bytes
            → (sink.new ≡ sink.old) × (result ≡ Polled.Ready (Ok tt)) }
    {
        self.encoded.poll(sink)
    }
}

/// Writes a buffer, poll by poll.
///
/// It counts the bytes sent, and sends none of them twice.
#[derive(Debug, Drop)]
pub struct PutBuffer<'a> {
    bytes: &'a [u8],
    sent: usize,
}

impl<'a> Model for PutBuffer<'a> {
    ghost Value = { Writing };

    ghost view = { λ s. record { bytes = s.bytes.now; sent = s.sent } };

    ghost invariant = { λ s. s.sent ≤ length s.bytes.now };
}

impl<'a> PutBuffer<'a> {
    /// Creates a state that has sent nothing.
    pub fn new(bytes: &'a [u8]) -> Self
        ensures { result ≡ unsent bytes.now }
    {
        PutBuffer { bytes, sent: 0 }
    }

    /// Writes until all bytes are sent or the sink accepts no more.
    ///
    /// Returns `Ready(Ok(()))` once all bytes are sent, and so does every later poll, without a
    /// call of the sink. An empty buffer is sent from the start. Otherwise returns what the sink
    /// reported, as `PutVarint` does, and may be polled again.
    pub fn poll<W: AsyncWrite>(&mut self, sink: &mut W) -> Polled<Result<(), IoWriteError>>
        ensures on { GoesOn self.old self.new }
        ensures whole { IsSent result self.new }
        ensures polled { HasModel (W.model sink.old) (W.model sink.new)
            (WritePolled result self.old self.new) }
        ensures finished { self.old.sent ≡ length self.old.bytes
            → (sink.new ≡ sink.old) × (result ≡ Polled.Ready (Ok tt)) }
    {
        drain(sink, self.bytes, &mut self.sent)
    }
}

/// Creates writing states for any sink. These calls do not change the sink.
pub trait BytesWriterAsync: AsyncWrite {
    /// Returns a state that writes the shortest encoding of `varint`.
    fn put_varint(&mut self, varint: VarInt) -> PutVarint
        ensures fresh { result ≡ unsent (shortest varint) }
        ensures same { self.new ≡ self.old };

    /// Returns a state that writes the buffer.
    fn put_buffer<'a>(&mut self, buffer: &'a [u8]) -> PutBuffer<'a>
        ensures fresh { result ≡ unsent buffer.now }
        ensures same { self.new ≡ self.old };
}

impl<W: AsyncWrite> BytesWriterAsync for W {
    fn put_varint(&mut self, varint: VarInt) -> PutVarint {
        PutVarint::new(varint)
    }

    fn put_buffer<'a>(&mut self, buffer: &'a [u8]) -> PutBuffer<'a> {
        PutBuffer::new(buffer)
    }
}
