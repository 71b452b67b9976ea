//! Samples of loops over each call that has a condition on the state that it changes. The condition
//! still holds after the call, so a struct keeps it in a ghost field, and no loop needs a proof
//! file. What is proved of the loops is that each call may be made, and that they end; how far they
//! come depends on what they read from.
ghost use Rattle.std.specs.Prelude.{◌≡◌, ◌≢◌, ◌↔◌, IsSome, IsTrue, IfSome, IfOk, IfErr};
ghost use Rattle.wtransport_proto.specs.Content.{kind_in};
ghost use Rattle.wtransport_proto.specs.Streams.{CanRead, CanWrite, can_upgrade, session_of};
ghost use Rattle.wtransport_proto.specs.StreamWriting.{WritesPlain};

use std::alloc::Global;
use std::borrow::CowSlice;
use wtransport_proto::bytes::{
    AsyncRead, AsyncWrite, BufferReader, BufferWriter, BytesReader, BytesWriter, EndOfBuffer,
    IoWriteError, Polled, PutError, Stepped,
};
use wtransport_proto::error::ErrorCode;
use wtransport_proto::exchange::{ReceiveError, receive};
use wtransport_proto::frame::{Frame, FrameKind, FrameOwned, FrameReading, FrameWriting};
use wtransport_proto::ids::SessionId;
use wtransport_proto::stream::bilocal::{StreamBiLocalH3, StreamBiLocalWT};
use wtransport_proto::stream::unilocal::StreamUniLocalH3;
use wtransport_proto::stream::uniremote::StreamUniRemoteH3;
use wtransport_proto::stream::{Driven, IoReadError, ReadsFrames, drive};
use wtransport_proto::stream_header::StreamKind;

/// How often a loop runs at most.
const TURNS: u32 = 4096;

/// A stream in one direction that the peer opened, from which frames are read.
#[derive(Debug, Drop)]
pub struct FromPeer {
    stream: StreamUniRemoteH3,
    ghost readable: { CanRead stream },
}

impl FromPeer {
    /// Creates it from a stream, if frames may be read from it.
    pub fn new(stream: StreamUniRemoteH3) -> Option<Self>
        ensures some { IsSome result ↔ CanRead stream }
        ensures stream { IfSome result (λ made. made.stream ≡ stream) }
    {
        if !stream.can_read() {
            return None;
        }
        Some(FromPeer { stream })
    }

    /// Reads the frames, and returns the kind of the last one.
    pub fn last_kind<'a, R: BytesReader<'a>>(
        &mut self,
        reader: &mut R,
    ) -> Result<Option<FrameKind>, ErrorCode> {
        let mut kind = None;
        for _turn in 0..TURNS {
            match self.stream.read_frame(reader)? {
                Some(frame) => kind = Some(frame.kind()),
                None => break,
            }
        }
        Ok(kind)
    }

    /// Reads the frames from a buffer, and returns the kind of the last one.
    pub fn last_buffered_kind(
        &mut self,
        reader: &mut BufferReader<'_>,
    ) -> Result<Option<FrameKind>, ErrorCode> {
        let mut kind = None;
        for _turn in 0..TURNS {
            match self.stream.read_frame_from_buffer(reader)? {
                Some(frame) => kind = Some(frame.kind()),
                None => break,
            }
        }
        Ok(kind)
    }

    /// Polls for the next frame.
    pub fn next_frame<S: AsyncRead>(
        &mut self,
        reading: &mut FrameReading,
        source: &mut S,
    ) -> Polled<Result<FrameOwned, IoReadError>> {
        for _turn in 0..TURNS {
            match self.stream.read_frame_async(reading, source) {
                Polled::Pending | Polled::Again | Polled::NoMemory => {}
                answer => return answer,
            }
        }
        Polled::Pending
    }

    /// Drives the stream to its end.
    pub fn drive<S: AsyncRead>(
        &mut self,
        reading: &mut FrameReading,
        source: &mut S,
        out: &mut Vec<FrameOwned>,
    ) -> Driven {
        for _turn in 0..TURNS {
            match drive(&mut self.stream, reading, source, out, 16) {
                Driven::Spent | Driven::Waiting => {}
                driven => return driven,
            }
        }
        Driven::Waiting
    }

    /// Receives header maps up to the first error.
    pub fn receive_all<S: AsyncRead>(
        &mut self,
        alloc: Global,
        source: &mut S,
    ) -> Result<(), ReceiveError> {
        for _turn in 0..TURNS {
            let _headers = receive(alloc, &mut self.stream, source, 16)?;
        }
        Ok(())
    }
}

/// Polls a stream of any kind for its next frame. Returns `Pending` as well if no frame may be read
/// from it.
pub fn next_frame<K: ReadsFrames, S: AsyncRead>(
    stream: &mut K,
    reading: &mut FrameReading,
    source: &mut S,
) -> Polled<Result<FrameOwned, IoReadError>> {
    for _turn in 0..TURNS {
        if !stream.can_read() {
            break;
        }
        match stream.read_frame_async(reading, source) {
            Polled::Pending | Polled::Again | Polled::NoMemory => {}
            answer => return answer,
        }
    }
    Polled::Pending
}

/// A stream in one direction that this end opened, to which frames are written.
#[derive(Debug, Drop)]
pub struct ToPeer {
    stream: StreamUniLocalH3,
    ghost writable: { CanWrite stream },
}

impl ToPeer {
    /// Creates it from a stream, if frames may be written to it.
    pub fn new(stream: StreamUniLocalH3) -> Option<Self>
        ensures some { IsSome result ↔ CanWrite stream }
        ensures stream { IfSome result (λ made. made.stream ≡ stream) }
    {
        if stream.kind() == StreamKind::WebTransport {
            return None;
        }
        Some(ToPeer { stream })
    }

    /// Writes each payload as a DATA frame.
    pub fn write_each<W: BytesWriter>(
        &mut self,
        payloads: &[[u8; 4]],
        writer: &mut W,
    ) -> Result<(), PutError> {
        for payload in payloads {
            let frame = Frame::new_data(CowSlice::Borrowed(payload));
            self.stream.write_frame(frame, writer)?;
        }
        Ok(())
    }

    /// Writes each payload as a DATA frame to a buffer.
    pub fn write_each_to_buffer(
        &mut self,
        payloads: &[[u8; 4]],
        writer: &mut BufferWriter<'_>,
    ) -> Result<(), EndOfBuffer> {
        for payload in payloads {
            let frame = Frame::new_data(CowSlice::Borrowed(payload));
            self.stream.write_frame_to_buffer(frame, writer)?;
        }
        Ok(())
    }

    /// Polls the writing of a frame.
    pub fn send<W: AsyncWrite>(
        &mut self,
        writing: &mut FrameWriting<'_>,
        sink: &mut W,
    ) -> Polled<Result<(), IoWriteError>> {
        for _turn in 0..TURNS {
            match self.stream.write_frame_async(writing, sink) {
                Polled::Pending | Polled::NoMemory => {}
                answer => return answer,
            }
        }
        Polled::Pending
    }
}

/// Writes each payload as a DATA frame on a stream that this end opened.
pub fn write_each<W: BytesWriter>(
    stream: &mut StreamBiLocalH3,
    payloads: &[[u8; 4]],
    writer: &mut W,
) -> Result<(), PutError> {
    for payload in payloads {
        let frame = Frame::new_data(CowSlice::Borrowed(payload));
        stream.write_frame(frame, writer)?;
    }
    Ok(())
}

/// A frame that is written to a stream that this end opened.
#[derive(Debug, Drop)]
pub struct Sending<'a> {
    stream: StreamBiLocalH3,
    writing: FrameWriting<'a>,
    ghost plain: { WritesPlain writing },
}

impl<'a> Sending<'a> {
    /// Creates it from a stream and a frame, if the frame may be written to the stream.
    pub fn new(stream: StreamBiLocalH3, frame: &'a Frame<'_>) -> Option<Self>
        ensures some { IsSome result ↔ (kind_in frame.now ≢ FrameKind.WebTransport) }
        ensures stream { IfSome result (λ made. made.stream ≡ stream) }
    {
        if frame.kind() == FrameKind::WebTransport {
            return None;
        }
        let writing = frame.write_async();
        Some(Sending { stream, writing })
    }

    /// Polls the writing of the frame.
    pub fn send<W: AsyncWrite>(&mut self, sink: &mut W) -> Polled<Result<(), IoWriteError>> {
        for _turn in 0..TURNS {
            match self.stream.write_frame_async(&mut self.writing, sink) {
                Polled::Pending | Polled::NoMemory => {}
                answer => return answer,
            }
        }
        Polled::Pending
    }
}

/// A stream that this end opened, and to which no frame was written.
#[derive(Debug, Drop)]
pub struct Unused {
    stream: StreamBiLocalH3,
    ghost fresh: { IsTrue (can_upgrade stream) },
}

impl Unused {
    /// Creates it from a stream, if it can be upgraded.
    pub fn new(stream: StreamBiLocalH3) -> Option<Self>
        ensures some { IsSome result ↔ IsTrue (can_upgrade stream) }
        ensures stream { IfSome result (λ made. made.stream ≡ stream) }
    {
        if !stream.can_upgrade() {
            return None;
        }
        Some(Unused { stream })
    }

    /// Converts to a stream of a session.
    fn try_upgrade<W: BytesWriter>(
        self,
        session_id: SessionId,
        writer: &mut W,
    ) -> Result<StreamBiLocalWT, Self>
        ensures ok { IfOk result (λ made. session_of made ≡ session_id) }
        ensures err { IfErr result (λ same. same.stream ≡ self.stream) }
    {
        match self.stream.upgrade(session_id, writer) {
            Ok(upgraded) => Ok(upgraded),
            Err((stream, _)) => Err(Unused { stream }),
        }
    }

    /// Converts to a stream of a session, and tries again if the writer refuses.
    pub fn upgrade<W: BytesWriter>(
        self,
        session_id: SessionId,
        writer: &mut W,
    ) -> Result<StreamBiLocalWT, Self>
        ensures { IfOk result (λ made. session_of made ≡ session_id) }
    {
        let mut unused = self;
        for _turn in 0..TURNS {
            match unused.try_upgrade(session_id, writer) {
                Ok(upgraded) => return Ok(upgraded),
                Err(same) => unused = same,
            }
        }
        Err(unused)
    }

    /// Converts to a stream of a session, poll by poll.
    pub fn upgrade_polled<W: AsyncWrite>(
        self,
        session_id: SessionId,
        sink: &mut W,
    ) -> Option<StreamBiLocalWT> {
        let mut upgrading = self.stream.upgrade_async(session_id);
        for _turn in 0..TURNS {
            match upgrading.poll(sink) {
                Stepped::Done(upgraded) => return Some(upgraded),
                Stepped::Pending(same) | Stepped::NoMemory(same) => upgrading = same,
                Stepped::Failed(_, _) => return None,
            }
        }
        None
    }
}

/// Polls the writing of a frame.
pub fn send<W: AsyncWrite>(
    writing: &mut FrameWriting<'_>,
    sink: &mut W,
) -> Polled<Result<(), IoWriteError>> {
    for _turn in 0..TURNS {
        match writing.poll(sink) {
            Polled::Pending | Polled::NoMemory => {}
            answer => return answer,
        }
    }
    Polled::Pending
}
