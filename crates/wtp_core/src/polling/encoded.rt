//! Polled writing of one or two variable-length integers.
ghost use Rattle.std.specs.Prelude.{◌≡◌, ◌≤◌, ◌++◌, length, take, drop, Ok};
ghost use Rattle.wtp_core.specs.Source.{HasModel};
ghost use Rattle.wtp_core.specs.Varint.{shortest};
ghost use Rattle.wtp_core.specs.Put.{Writing, unsent, GoesOn, IsSent, WritePolled};

use crate::bytes::{AsyncWrite, BufferWriter, BytesWriter, IoWriteError, Polled};
use crate::polling::drain::drain;
use crate::varint::VarInt;
use std::marker::Model;

/// The shortest encodings of one or two numbers (RFC 9000, section 16), and how many of their bytes
/// are sent. It sends no byte twice.
#[derive(Debug, Drop)]
pub struct VarintWriting {
    bytes: [u8; 16],
    len: usize,
    sent: usize,
}

impl Model for VarintWriting {
    ghost Value = { Writing };

    ghost view = { λ s. record { bytes = take s.len s.bytes; sent = s.sent } };

    ghost invariant = { λ s. (s.len ≤ 16) × (s.sent ≤ s.len) };
}

impl VarintWriting {
    /// Encodes one number. Nothing is sent yet.
    pub fn one(number: VarInt) -> Self
        ensures { result ≡ unsent (shortest number) }
    {
        let mut bytes = [0; 16];
        let len = encode(number, &mut bytes);
        VarintWriting {
            bytes,
            len,
            sent: 0,
        }
    }

    /// Encodes two numbers, one after the other. Nothing is sent yet.
    pub fn two(first: VarInt, second: VarInt) -> Self
        ensures { result ≡ unsent (shortest first ++ shortest second) }
    {
        let mut bytes = [0; 16];
        let one = encode(first, &mut bytes);
        let two = encode(second, &mut bytes[one..]);
        VarintWriting {
            bytes,
            len: one + two,
            sent: 0,
        }
    }

    /// Returns the number of bytes sent.
    pub fn sent_len(&self) -> usize
        ensures { result ≡ self.now.sent }
    {
        self.sent
    }

    /// Writes until all bytes are sent or the sink accepts no more. The results are those of
    /// `drain`.
    pub fn poll<W: AsyncWrite>(&mut self, sink: &mut W) -> Polled<Result<(), IoWriteError>>
        ensures on { GoesOn self.old self.new }
        ensures whole { IsSent result self.new }
        ensures polled { HasModel (W.model sink.old) (W.model sink.new)
            (WritePolled result self.old self.new) }
        ensures finished { self.old.sent ≡ length self.old.bytes
            → (sink.new ≡ sink.old) × (result ≡ Polled.Ready (Ok tt)) }
    {
        drain(sink, &self.bytes[..self.len], &mut self.sent)
    }
}

/// Writes the shortest encoding to the start of the buffer, and returns its size in bytes.
fn encode(number: VarInt, buffer: &mut [u8]) -> usize
    requires { 8 ≤ length buffer.old }
    ensures bytes { buffer.new ≡ shortest number ++ drop result buffer.old }
    ensures size { result ≡ length (shortest number) }
    ensures most { result ≤ 8 }
{
    let size = number.size();
    let mut writer = BufferWriter::new(buffer);
    let put = writer.put_varint(number);
    prove!(put.is_ok());
    size
}
