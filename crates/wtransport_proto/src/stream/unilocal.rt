//! Unidirectional streams that this endpoint opened.
ghost use Rattle.std.specs.Prelude.{◌≡◌, ◌≤◌, ◌↔◌, length, Err, IfOk, IfErr, IsOk, OnOk, OnErr, Ok};
ghost use Rattle.wtp_core.specs.Source.{HasModel};
ghost use Rattle.wtp_core.specs.Writer.{PutsParts, LacksRoom};
ghost use Rattle.wtp_core.specs.BufferWriter.{room_in, loan_of, IsUnwritten, Wrote};
ghost use Rattle.wtp_core.specs.Put.{GoesOn, IsSent, WritePolled, unsent};
ghost use Rattle.wtp_wire.specs.HeaderWire.{header_parts, header_wire};
ghost use Rattle.wtp_wire.specs.Wire.{parts_of, wire};
ghost use Rattle.wtransport_proto.specs.Streams.{CanWrite, header_of};
ghost use Rattle.wtransport_proto.specs.Upgrading.{write_answer};

use crate::stream::types::{H3, Quic, UniLocal, WT};
use crate::stream::{IoWriteError, Stream, UniUpgrading};
use wtp_core::bytes::{AsyncWrite, BufferWriter, BytesWriter, EndOfBuffer, Polled, PutError};
use wtp_wire::frame::{Frame, FrameWriting};
use wtp_wire::stream_header::StreamHeader;

/// A stream of QUIC.
pub type StreamUniLocalQuic = Stream<UniLocal, Quic>;

/// A stream of HTTP/3 whose header has been written.
pub type StreamUniLocalH3 = Stream<UniLocal, H3<StreamHeader>>;

/// A stream of a WebTransport session.
pub type StreamUniLocalWT = Stream<UniLocal, WT>;

impl StreamUniLocalQuic {
    /// Creates a stream that this endpoint opened.
    pub fn open_uni() -> Self {
        Stream {
            kind: UniLocal::default(),
            stage: Quic,
        }
    }

    /// Writes the header as `StreamHeader::write` does, and converts to a stream of HTTP/3.
    ///
    /// On an error, returns the stream unchanged. The type of the header may have been written.
    pub fn upgrade<W: BytesWriter>(
        self,
        stream_header: StreamHeader,
        writer: &mut W,
    ) -> Result<StreamUniLocalH3, (StreamUniLocalQuic, PutError)>
        ensures header { IfOk result (λ s. header_of s ≡ stream_header) }
        ensures handed_back { IfErr result (λ e. e.0 ≡ self) }
        ensures parts { PutsParts W.grows (header_parts stream_header) (write_answer result)
            (W.written writer.old) (W.room writer.old) (W.written writer.new) (W.room writer.new) }
        ensures full { write_answer result ≡ Err PutError.EndOfBuffer
            → LacksRoom (W.room writer.old) (length (header_wire stream_header)) }
        ensures target { W.target writer.new ≡ W.target writer.old }
    {
        match stream_header.write(writer) {
            Ok(()) => Ok(Stream {
                kind: self.kind,
                stage: H3 {
                    header: stream_header,
                    first_frame_done: false,
                },
            }),
            Err(error) => Err((self, error)),
        }
    }

    /// Returns a state that writes the header poll by poll, and then converts to a stream of
    /// HTTP/3.
    pub fn upgrade_async(self, header: StreamHeader) -> UniUpgrading
        ensures stream { result.stream ≡ self }
        ensures header { result.header ≡ header }
        ensures writing { result.writing ≡ unsent (header_wire header) }
    {
        let writing = header.write_async();
        UniUpgrading {
            stream: self,
            header,
            writing,
        }
    }

    /// Returns the number of bytes that `upgrade` writes.
    pub fn upgrade_size(stream_header: StreamHeader) -> usize
        ensures size { result ≡ length (header_wire stream_header) }
        ensures most { result ≤ StreamHeader.MAX_SIZE }
    {
        stream_header.write_size()
    }
}

impl StreamUniLocalH3 {
    /// Writes a frame as `Frame::write` does, and consumes it. Requires that `kind` does not return
    /// WebTransport; use `upgrade` for a WebTransport stream. The stream is unchanged, and more
    /// frames may be written.
    ///
    /// On an error, the frame is dropped, and its parts before the one that failed have been
    /// written.
    pub fn write_frame<W: BytesWriter>(
        &mut self,
        frame: Frame<'_>,
        writer: &mut W,
    ) -> Result<(), PutError>
        requires { CanWrite self.old }
        ensures parts { PutsParts W.grows (parts_of frame.entry) result (W.written writer.old)
            (W.room writer.old) (W.written writer.new) (W.room writer.new) }
        ensures full { result ≡ Err PutError.EndOfBuffer
            → LacksRoom (W.room writer.old) (length (wire frame.entry)) }
        ensures target { W.target writer.new ≡ W.target writer.old }
        ensures same { self.new ≡ self.old }
        ensures writable { CanWrite self.new }
    {
        frame.write(writer)
    }

    /// Writes a complete frame as `Frame::write_to_buffer` does, and consumes it. The requirement
    /// is that of `write_frame`.
    ///
    /// Returns `EndOfBuffer` if too little space is left; nothing is then written, and the frame is
    /// dropped.
    pub fn write_frame_to_buffer(
        &mut self,
        frame: Frame<'_>,
        writer: &mut BufferWriter<'_>,
    ) -> Result<(), EndOfBuffer>
        requires { CanWrite self.old }
        ensures room { IsOk result ↔ (length (wire frame.entry) ≤ length (room_in writer.old)) }
        ensures ok { OnOk result (Wrote (wire frame.entry) writer.old writer.new) }
        ensures err { OnErr result (IsUnwritten writer.old writer.new) }
        ensures loan { loan_of writer.new ≡ loan_of writer.old }
        ensures same { self.new ≡ self.old }
        ensures writable { CanWrite self.new }
    {
        frame.write_to_buffer(writer)
    }

    /// Writes a frame, poll by poll, as `FrameWriting` does. The requirement is that of
    /// `write_frame`. The stream is unchanged, so it may be polled again.
    pub fn write_frame_async<W: AsyncWrite>(
        &mut self,
        writing: &mut FrameWriting<'_>,
        sink: &mut W,
    ) -> Polled<Result<(), IoWriteError>>
        requires { CanWrite self.old }
        ensures on { GoesOn writing.old writing.new }
        ensures whole { IsSent result writing.new }
        ensures polled { HasModel (W.model sink.old) (W.model sink.new)
            (WritePolled result writing.old writing.new) }
        ensures finished { writing.old.sent ≡ length writing.old.bytes
            → (sink.new ≡ sink.old) × (result ≡ Polled.Ready (Ok tt)) }
        ensures same { self.new ≡ self.old }
        ensures writable { CanWrite self.new }
    {
        writing.poll(sink)
    }
}
