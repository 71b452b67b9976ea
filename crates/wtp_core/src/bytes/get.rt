//! Polled reading of a variable-length integer, or into a buffer.
ghost use Rattle.std.specs.Prelude.{◌≡◌, ℕ, ◌<◌, ◌≤◌, List, [], None, length, take, Ok};
ghost use Rattle.wtp_core.specs.Source.{HasModel};
ghost use Rattle.wtp_core.specs.Polled.{IsPaced, PollsAtMost, WaitsAs};
ghost use Rattle.wtp_core.specs.Varint.{number_at};
ghost use Rattle.wtp_core.specs.VarintLenNeeded.{varint_len_needed, IsCutNumber, varint_need_most, varint_need_grows};
ghost use Rattle.wtp_core.specs.Get.{VarintPolled, VarintGiven, BufferPolled, BufferGiven};

use crate::bytes::error::IoReadError;
use crate::bytes::poll::Polled;
use crate::bytes::source::AsyncRead;
use crate::polling::fill::{fill, interrupt_result};
use crate::polling::head::{Prefix, fill_prefix};
use crate::varint::{VarInt, first_varint};
use std::marker::Model;

/// Returns how many bytes the encoding of a variable-length integer needs, given its first bytes
/// `held`: 1 if none is held yet.
#[inline(always)]
pub fn varint_len_needed(held: &[u8]) -> usize
    ensures { result ≡ varint_len_needed held.now }
{
    match held.first() {
        None => 1,
        Some(first) => 1 << (*first >> 6),
    }
}

/// A variable-length integer consists of its head only.
struct VarintPrefix;

impl Prefix for VarintPrefix {
    ghost len_needed = { varint_len_needed };

    ghost max_len = { 8 };

    fn len_needed(held: &[u8]) -> usize {
        varint_len_needed(held)
    }

    ghost need_most = { varint_need_most };

    ghost need_grows = { varint_need_grows };
}

/// Reads one variable-length integer (RFC 9000, section 16), poll by poll, and no byte after it.
///
/// It buffers the bytes received. A poll that does not return the number loses none of them.
#[derive(Debug, Drop)]
pub struct GetVarint {
    bytes: [u8; 8],
    len: usize,
}

impl Model for GetVarint {
    ghost Value = { List ℕ };

    ghost view = { λ s. take s.len s.bytes };

    ghost invariant = { λ s. (s.len < 8) × IsCutNumber (take s.len s.bytes) };
}

impl GetVarint {
    /// Creates a state that has read nothing.
    pub fn new() -> Self
        ensures { result ≡ [] }
    {
        GetVarint {
            bytes: [0; 8],
            len: 0,
        }
    }

    /// Reads until the number is complete or the source gives no more. Calls the source at most 8
    /// times, and at most once more than it gives bytes, and does not allocate.
    ///
    /// Returns the number, and is then reset; `Pending` if the source was not ready, after which
    /// the source is not called again; or the reason why the source gave no more bytes. It may be
    /// polled again after `Pending` or an error.
    pub fn poll<S: AsyncRead>(&mut self, source: &mut S) -> Polled<Result<VarInt, IoReadError>>
        ensures was_cut { number_at self.old ≡ None }
        ensures cut { number_at self.new ≡ None }
        ensures given { VarintGiven result self.old self.new }
        ensures polled { HasModel (S.model source.old) (S.model source.new)
            (VarintPolled result self.old self.new) }
        ensures waits { HasModel (S.model source.old) (S.model source.new) (WaitsAs result) }
        ensures asks { HasModel (S.model source.old) (S.model source.new) (PollsAtMost 8) }
        ensures paced { HasModel (S.model source.old) (S.model source.new) IsPaced }
    {
        match fill_prefix::<VarintPrefix, S>(source, &mut self.bytes, &mut self.len) {
            Ok(()) => {}
            Err(interrupt) => return interrupt_result(interrupt, self.len),
        }
        let Some((value, _)) = first_varint(&self.bytes[..self.len]) else {
            unreachable!()
        };
        self.len = 0;
        Polled::Ready(Ok(value))
    }
}

/// Fills a buffer, poll by poll, and reads no more bytes than fit.
///
/// The bytes received are at the start of the buffer. A poll that does not fill the buffer loses
/// none of them.
#[derive(Debug, Drop)]
pub struct GetBuffer<'a> {
    buffer: &'a mut [u8],
    filled: usize,
    ghost within: { filled ≤ length buffer.now },
}

impl<'a> GetBuffer<'a> {
    ghost use Rattle.wtp_core.specs.GetBuffer.{buffer_of, taken_of, room_of, loan_in};

    /// Creates a state that has read nothing.
    pub fn new(buffer: &'a mut [u8]) -> Self
        ensures taken { taken_of result ≡ [] }
        ensures buffer { buffer_of result ≡ buffer.old }
        ensures lent { loan_in result ≡ buffer.entry.ghost_name }
    {
        GetBuffer { buffer, filled: 0 }
    }

    /// Reads until the buffer is full or the source gives no more. Calls the source at most as many
    /// times as the buffer has bytes, and does not allocate.
    ///
    /// Returns `Ready(Ok(()))` once the buffer is full, and so does every later poll, without a
    /// call of the source. An empty buffer is full from the start. Otherwise returns `Pending` if
    /// the source was not ready, or the reason why it gave no more bytes, and may be polled again.
    pub fn poll<S: AsyncRead>(&mut self, source: &mut S) -> Polled<Result<(), IoReadError>>
        ensures lent { loan_in self.new ≡ loan_in self.old }
        ensures room { room_of self.new ≡ room_of self.old }
        ensures given { BufferGiven result (room_of self.old) (taken_of self.old)
            (taken_of self.new) }
        ensures polled { HasModel (S.model source.old) (S.model source.new)
            (BufferPolled result (taken_of self.old) (taken_of self.new)) }
        ensures waits { HasModel (S.model source.old) (S.model source.new) (WaitsAs result) }
        ensures asks { HasModel (S.model source.old) (S.model source.new) (PollsAtMost (room_of self.old)) }
        ensures paced { HasModel (S.model source.old) (S.model source.new) IsPaced }
        ensures finished { length (taken_of self.old) ≡ room_of self.old
            → (source.new ≡ source.old) × (result ≡ Polled.Ready (Ok tt))
            × (buffer_of self.new ≡ buffer_of self.old) }
    {
        if self.filled == self.buffer.len() {
            return Polled::Ready(Ok(()));
        }
        match fill(source, self.buffer, &mut self.filled) {
            Ok(()) => Polled::Ready(Ok(())),
            Err(interrupt) => interrupt_result(interrupt, self.filled),
        }
    }
}

/// Creates reading states for any source. These calls do not change the source.
pub trait BytesReaderAsync: AsyncRead {
    ghost use Rattle.wtp_core.specs.GetBuffer.{buffer_of, taken_of, loan_in};

    /// Returns a state that reads one variable-length integer.
    fn get_varint(&mut self) -> GetVarint
        ensures fresh { result ≡ [] }
        ensures same { self.new ≡ self.old };

    /// Returns a state that fills the buffer.
    fn get_buffer<'a>(&mut self, buffer: &'a mut [u8]) -> GetBuffer<'a>
        ensures taken { taken_of result ≡ [] }
        ensures buffer { buffer_of result ≡ buffer.old }
        ensures lent { loan_in result ≡ buffer.entry.ghost_name }
        ensures same { self.new ≡ self.old };
}

impl<S: AsyncRead> BytesReaderAsync for S {
    fn get_varint(&mut self) -> GetVarint {
        GetVarint::new()
    }

    fn get_buffer<'a>(&mut self, buffer: &'a mut [u8]) -> GetBuffer<'a> {
        GetBuffer::new(buffer)
    }
}
