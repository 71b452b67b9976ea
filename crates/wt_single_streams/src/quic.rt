//! Streams of a QUIC library, and adapters to the traits of `bytes`. The library has no contract,
//! so the adapters have no model and check the values that it returns.
ghost use Rattle.std.specs.Prelude.{◌≡◌, []};

use std::alloc::Global;
use wtransport_proto::bytes::{AsyncRead, AsyncWrite, ReadStep, WriteStep};

/// Why a call to the QUIC library transferred no bytes.
#[derive(Clone, Copy, Debug)]
pub enum QuicError {
    /// Nothing can be transferred now. The library wakes this task when something can.
    WouldBlock,
    /// The peer reset the stream, or no longer reads it.
    Closed,
    /// The connection is lost.
    ConnectionLost,
}

/// A receiving stream of a QUIC library.
pub trait ReceiveStream {
    /// Copies received bytes into the buffer and returns their number, or 0 at the end of the
    /// stream.
    fn receive(&mut self, buf: &mut [u8]) -> Result<usize, QuicError>;
}

/// A sending stream of a QUIC library.
pub trait SendStream {
    /// Accepts bytes to send and returns their number.
    fn send(&mut self, buf: &[u8]) -> Result<usize, QuicError>;
}

/// A receiving stream as a source.
#[derive(Drop)]
pub struct QuicSource<T> {
    pub stream: T,
}

impl<T: ReceiveStream> AsyncRead for QuicSource<T> {
    fn poll_read(&mut self, buf: &mut [u8]) -> ReadStep {
        if buf.is_empty() {
            return ReadStep::Bytes(0);
        }
        match self.stream.receive(buf) {
            Ok(n) => ReadStep::Bytes(n.min(buf.len())),
            Err(QuicError::WouldBlock) => ReadStep::NotReady,
            Err(QuicError::Closed) => ReadStep::Reset,
            Err(QuicError::ConnectionLost) => ReadStep::NotConnected,
        }
    }
}

/// A sending stream as a sink.
#[derive(Drop)]
pub struct QuicSink<T> {
    pub stream: T,
}

impl<T: SendStream> AsyncWrite for QuicSink<T> {
    fn poll_write(&mut self, buf: &[u8]) -> WriteStep {
        if buf.is_empty() {
            return WriteStep::Bytes(0);
        }
        match self.stream.send(buf) {
            Ok(0) | Err(QuicError::WouldBlock) => WriteStep::NotReady,
            Ok(n) => WriteStep::Bytes(n.min(buf.len())),
            Err(QuicError::Closed) => WriteStep::Stopped,
            Err(QuicError::ConnectionLost) => WriteStep::NotConnected,
        }
    }
}

/// A receiving stream over bytes in memory. At most 3 bytes are available at a time.
#[derive(Drop)]
pub struct MemoryReceiver<'a> {
    bytes: &'a [u8],
    is_woken: bool,
}

impl<'a> MemoryReceiver<'a> {
    /// Creates a stream with these bytes.
    pub fn new(bytes: &'a [u8]) -> Self
        ensures { result.bytes.now ≡ bytes.now }
    {
        MemoryReceiver {
            bytes,
            is_woken: false,
        }
    }
}

impl ReceiveStream for MemoryReceiver<'_> {
    fn receive(&mut self, buf: &mut [u8]) -> Result<usize, QuicError> {
        self.is_woken = !self.is_woken;
        if self.is_woken {
            return Err(QuicError::WouldBlock);
        }
        let n = self.bytes.len().min(buf.len()).min(3);
        let (front, rest) = self.bytes.split_at(n);
        buf[..n].copy_from_slice(front);
        self.bytes = rest;
        Ok(n)
    }
}

/// A sending stream that keeps its bytes in memory. It accepts at most 3 bytes at a time.
#[derive(Drop)]
pub struct MemorySender {
    bytes: Vec<u8>,
    is_woken: bool,
}

impl MemorySender {
    /// Creates an empty stream.
    pub fn new(alloc: Global) -> Self
        ensures { result.bytes.items ≡ [] }
    {
        MemorySender {
            bytes: Vec::new(alloc),
            is_woken: false,
        }
    }

    /// Returns the bytes that were sent.
    pub fn bytes(&self) -> &[u8]
        ensures { result.now ≡ self.now.bytes.items }
    {
        self.bytes.as_slice()
    }
}

impl SendStream for MemorySender {
    fn send(&mut self, buf: &[u8]) -> Result<usize, QuicError> {
        self.is_woken = !self.is_woken;
        if self.is_woken {
            return Err(QuicError::WouldBlock);
        }
        let n = buf.len().min(3);
        match self.bytes.extend_from_slice(&buf[..n]) {
            Ok(()) => Ok(n),
            Err(_) => Err(QuicError::ConnectionLost),
        }
    }
}
