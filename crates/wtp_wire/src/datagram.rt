//! HTTP datagrams (RFC 9297, section 2.1).
ghost use Rattle.std.specs.Prelude.{◌≡◌, ◌+◌, ◌<◌, ◌≤◌, ◌^◌, ◌++◌, drop, length, Some, None, Ok, Err, MatchResult, ◌↔◌, IsOk, OnErr, IfOk};
ghost use Rattle.wtp_core.specs.Varint.{shortest};
ghost use Rattle.wtp_wire.specs.Datagram.{datagram_in, datagram_wire};

use std::marker::Model;
use wtp_core::bytes::{BufferWriter, BytesReader, BytesWriter, EndOfBuffer};
use wtp_core::error::ErrorCode;
use wtp_core::ids::QStreamId;

/// A datagram of a session: the session's quarter stream ID and a payload.
#[derive(Debug, Drop)]
pub struct Datagram<'a> {
    qstream_id: QStreamId,
    payload: &'a [u8],
}

impl<'a> Model for Datagram<'a> {
    ghost use Rattle.std.specs.Prelude.{ℕ, List};

    ghost Value = { ℕ × List ℕ };

    ghost view = { λ d. (d.qstream_id, d.payload.now) };
}

impl<'a> Datagram<'a> {
    /// Creates a datagram with the given payload.
    pub fn new(qstream_id: QStreamId, payload: &'a [u8]) -> Self
        ensures { result ≡ (qstream_id, payload.now) }
    {
        Datagram {
            qstream_id,
            payload,
        }
    }

    /// Parses the payload of a QUIC datagram. Returns [`ErrorCode::Datagram`] if it does not start
    /// with a complete variable-length integer, or if that number is 2^60 or more.
    #[tactic(auto, unfolding(crate::specs::Datagram::datagram_in))]
    pub fn read(quic_datagram: &'a [u8]) -> Result<Self, ErrorCode>
        ensures { MatchResult result (λ d. datagram_in quic_datagram.now ≡ Some d)
            (λ e. (datagram_in quic_datagram.now ≡ None) × (e ≡ ErrorCode.Datagram)) }
    {
        let mut reader = quic_datagram;
        let Some(id) = reader.get_varint() else {
            return Err(ErrorCode::Datagram);
        };
        match QStreamId::try_from_varint(id) {
            Ok(qstream_id) => Ok(Datagram::new(qstream_id, reader)),
            Err(_) => Err(ErrorCode::Datagram),
        }
    }

    /// Writes the datagram to the start of the buffer, and returns its size in bytes. Returns
    /// `EndOfBuffer` if the buffer is shorter than that; nothing is then written.
    #[tactic(auto, unfolding(crate::specs::Datagram::datagram_wire))]
    pub fn write(&self, buffer: &mut [u8]) -> Result<usize, EndOfBuffer>
        ensures room { IsOk result ↔ (length (datagram_wire self.now) ≤ length buffer.old) }
        ensures size { IfOk result (λ n. n ≡ length (datagram_wire self.now)) }
        ensures bytes { IfOk result
            (λ n. buffer.new ≡ datagram_wire self.now ++ drop n buffer.old) }
        ensures err { OnErr result (buffer.new ≡ buffer.old) }
    {
        let head = Self::header_size(self.qstream_id);
        if buffer.len() < head || buffer.len() - head < self.payload.len() {
            return Err(EndOfBuffer);
        }
        let mut writer = BufferWriter::new(buffer);
        let id = writer.put_varint(self.qstream_id.into_varint());
        prove!(id.is_ok());
        let payload = writer.put_bytes(self.payload);
        prove!(payload.is_ok());
        Ok(writer.offset())
    }

    /// Returns the number of bytes that `write` writes: the quarter stream ID in its shortest
    /// encoding, and the payload. Requires that their number is less than 2^64.
    #[tactic(auto, unfolding(crate::specs::Datagram::datagram_wire))]
    pub fn write_size(&self) -> usize
        requires { length (shortest self.now.0) + length self.now.1 < 2 ^ 64 }
        ensures { result ≡ length (datagram_wire self.now) }
    {
        Self::header_size(self.qstream_id) + self.payload.len()
    }

    /// Returns the number of bytes before the payload: the size of the quarter stream ID.
    pub fn header_size(qstream_id: QStreamId) -> usize
        ensures size { result ≡ length (shortest qstream_id) }
        ensures most { result ≤ 8 }
    {
        qstream_id.into_varint().size()
    }

    /// Returns the session's quarter stream ID.
    pub fn qstream_id(&self) -> QStreamId
        ensures { result ≡ self.now.0 }
    {
        self.qstream_id
    }

    /// Returns the payload.
    pub fn payload(&self) -> &'a [u8]
        ensures { result.now ≡ self.now.1 }
    {
        self.payload
    }
}
