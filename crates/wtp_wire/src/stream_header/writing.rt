//! Polled writing of stream headers.
ghost use Rattle.std.specs.Prelude.{◌≡◌, length, Ok};
ghost use Rattle.wtp_core.specs.Source.{HasModel};
ghost use Rattle.wtp_core.specs.Put.{Writing, unsent, GoesOn, IsSent, WritePolled};

use crate::stream_header::StreamHeader;
use std::fmt;
use std::marker::Model;
use wtp_core::bytes::{AsyncWrite, IoWriteError, Polled};
use wtp_core::polling::encoded::VarintWriting;

impl StreamHeader {
    ghost use Rattle.wtp_wire.specs.HeaderWire.{header_wire};

    /// Returns a state that writes the header to a sink, poll by poll, with each number in its
    /// shortest encoding.
    pub fn write_async(&self) -> HeaderWriting
        ensures { result ≡ unsent (header_wire self.now) }
    {
        let encoded = match self.session_id {
            Some(session_id) => VarintWriting::two(self.kind.id(), session_id.into_varint()),
            None => VarintWriting::one(self.kind.id()),
        };
        HeaderWriting { encoded }
    }
}

/// Writes one stream header to a sink, poll by poll.
///
/// It counts the bytes sent, and sends no byte twice. It does not allocate, but the sink may.
#[derive(Drop)]
pub struct HeaderWriting {
    encoded: VarintWriting,
}

// Prints the number of bytes sent.
impl fmt::Debug for HeaderWriting {
    fn fmt<W: fmt::Write>(&self, f: &mut fmt::Formatter<W>) -> fmt::Result {
        f.debug_struct("HeaderWriting")
            .field("sent", &self.encoded.sent_len())
            .finish_non_exhaustive()
    }
}

impl Model for HeaderWriting {
    ghost Value = { Writing };

    ghost view = { λ s. s.encoded };
}

impl HeaderWriting {
    /// Writes until all bytes are sent or the sink accepts no more. The results are those of
    /// `FrameWriting::poll`.
    pub fn poll<W: AsyncWrite>(&mut self, sink: &mut W) -> Polled<Result<(), IoWriteError>>
        ensures on { GoesOn self.old self.new }
        ensures whole { IsSent result self.new }
        ensures polled { HasModel (W.model sink.old) (W.model sink.new)
            (WritePolled result self.old self.new) }
        ensures finished { self.old.sent ≡ length self.old.bytes
            → (sink.new ≡ sink.old) × (result ≡ Polled.Ready (Ok tt)) }
    {
        self.encoded.poll(sink)
    }
}
