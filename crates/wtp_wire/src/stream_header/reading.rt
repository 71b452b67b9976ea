//! Polled reading of stream headers.
ghost use Rattle.std.specs.Prelude.{◌≡◌, ℕ, ◌+◌, ◌<◌, ◌≤◌, List, [], length, take, Ok};
ghost use Rattle.wtp_core.specs.Source.{HasModel};
ghost use Rattle.wtp_core.specs.Polled.{IsPaced, PollsAtMost, WaitsAs};
ghost use Rattle.wtp_wire.specs.HeaderFront.{Short, header_front};
ghost use Rattle.wtp_wire.specs.HeaderNeed.{header_need, header_need_most, header_need_grows};
ghost use Rattle.wtp_wire.specs.HeaderPolling.{HeaderPolled, HeaderGiven, IsWhole};

use crate::stream_header::{ParseError, StreamHeader, StreamKind};
use std::fmt;
use std::marker::Model;
use wtp_core::bytes;
use wtp_core::bytes::get::varint_len_needed;
use wtp_core::bytes::{AsyncRead, Polled};
use wtp_core::polling::fill::interrupt_result;
use wtp_core::polling::head::{Prefix, fill_prefix};
use wtp_core::varint::first_varint;

/// The reason why no header was read from a source.
///
/// It covers the header of a unidirectional stream. `frame::IoReadError` covers a frame, and
/// `bytes::IoReadError` only the source.
#[derive(Debug, Drop, PartialEq, Eq, thiserror::Error)]
pub enum IoReadError {
    /// The bytes are not a valid header.
    #[error("{0}")]
    Parse(ParseError),
    /// The source gave no more bytes.
    #[error("{0}")]
    IO(bytes::IoReadError),
}

impl From<bytes::IoReadError> for IoReadError {
    ghost use Rattle.std.specs.Prelude.{◌≡◌};
    ghost use Rattle.wtp_wire.specs.declared.stream_header.reading.IoReadError.TheVariants.{IO};

    ghost from_gives = { λ fault error. error ≡ IO fault };

    fn from(fault: bytes::IoReadError) -> Self {
        IoReadError::IO(fault)
    }
}

impl StreamHeader {
    /// Returns a state that reads a header from a source, poll by poll.
    pub fn read_async() -> HeaderReading
        ensures { result ≡ [] }
    {
        HeaderReading::new()
    }
}

/// The head of a stream: its type, followed by a session ID if that is the WebTransport type.
struct HeaderPrefix;

impl Prefix for HeaderPrefix {
    ghost len_needed = { header_need };

    ghost max_len = { 16 };

    #[tactic(auto, unfolding(crate::specs::HeaderNeed::header_need))]
    fn len_needed(held: &[u8]) -> usize {
        let first = varint_len_needed(held);
        let Some((id, size)) = first_varint(held) else {
            return first;
        };
        match StreamKind::parse(id) {
            Some(kind) if kind.has_session() => first + varint_len_needed(&held[size..]),
            _ => first,
        }
    }

    ghost need_most = { header_need_most };

    ghost need_grows = { header_need_grows };
}

/// Reads one stream header from a source, poll by poll, and takes no byte after it.
///
/// It buffers a partial header across polls. After a header or a parse error it is reset.
#[derive(Drop)]
pub struct HeaderReading {
    bytes: [u8; 16],
    len: usize,
}

// Prints the number of bytes held.
impl fmt::Debug for HeaderReading {
    fn fmt<W: fmt::Write>(&self, f: &mut fmt::Formatter<W>) -> fmt::Result {
        f.debug_struct("HeaderReading")
            .field("bytes", &self.len)
            .finish_non_exhaustive()
    }
}

impl Model for HeaderReading {
    ghost Value = { List ℕ };

    ghost view = { λ s. take s.len s.bytes };

    ghost invariant = { λ s. (s.len ≤ 16)
        × (length (take s.len s.bytes) < header_need (take s.len s.bytes)) };
}

impl HeaderReading {
    /// Creates a state that has read nothing.
    pub fn new() -> Self
        ensures { result ≡ [] }
    {
        HeaderReading {
            bytes: [0; 16],
            len: 0,
        }
    }

    /// Reads until the header is complete or the source gives no more. Calls the source at most 16
    /// times, and does not allocate.
    ///
    /// - `Ready(Ok(header))` or `Ready(Err(Parse(error)))`: the result of `StreamHeader::read` for
    ///   the bytes received and ahead. The source is positioned right after the bytes that
    ///   `StreamHeader::read` reads.
    /// - `Ready(Err(IO(error)))`: the source gave no more bytes, and there were too few. All bytes
    ///   received are held.
    /// - `Pending`: the source was not ready, and was not called again after that. All bytes
    ///   received are held.
    ///
    /// It may be polled again after each of these, with the same source or another one.
    pub fn poll<S: AsyncRead>(
        &mut self,
        source: &mut S,
    ) -> Polled<Result<StreamHeader, IoReadError>>
        ensures was_cut { header_front self.old ≡ Short }
        ensures cut { header_front self.new ≡ Short }
        ensures given { HeaderGiven result self.old self.new }
        ensures polled { HasModel (S.model source.old) (S.model source.new)
            (HeaderPolled result self.old self.new) }
        ensures waits { HasModel (S.model source.old) (S.model source.new) (WaitsAs result) }
        ensures asks { HasModel (S.model source.old) (S.model source.new) (PollsAtMost 16) }
        ensures paced { HasModel (S.model source.old) (S.model source.new) IsPaced }
    {
        match fill_prefix::<HeaderPrefix, S>(source, &mut self.bytes, &mut self.len) {
            Ok(()) => {}
            Err(interrupt) => return interrupt_result(interrupt, self.len),
        }
        let answer = read_whole(&self.bytes[..self.len]);
        self.len = 0;
        Polled::Ready(answer)
    }
}

/// Parses the bytes of a complete header, with no bytes after it.
fn read_whole(bytes: &[u8]) -> Result<StreamHeader, IoReadError>
    requires { header_need bytes.now ≡ length bytes.now }
    ensures { IsWhole result bytes.now }
{
    let mut rest = bytes;
    match StreamHeader::read(&mut rest) {
        Ok(Some(header)) => Ok(header),
        Ok(None) => unreachable!(),
        Err(fault) => Err(IoReadError::Parse(fault)),
    }
}
