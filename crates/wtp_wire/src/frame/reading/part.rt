//! The bytes received of one frame: those of its head (its first two numbers) and those of its
//! payload.
ghost use Rattle.std.specs.Prelude.{◌≡◌, ◌<◌, length, false, IsTrue};
ghost use Rattle.wtp_core.specs.Source.{HasModel};
ghost use Rattle.wtp_wire.specs.PartialFrame.{Part, new_part, bytes_in, IsReading};
ghost use Rattle.wtp_wire.specs.FrameSteps.{LacksPayloadRoom, PayloadKeeps, AdvanceKeeps, StopMoves, StopWaits, Grew};

use crate::frame::head::{Announcement, FramePrefix, read_head};
use std::alloc::Global;
use std::marker::Model;
use std::mem;
use wtp_core::bytes::AsyncRead;
use wtp_core::polling::fill::{Interrupted, fill};
use wtp_core::polling::head::fill_prefix;

// The maximum length of a head in bytes: two numbers of at most 8 bytes.
const MAX_HEAD: usize = 16;

/// The reason why reading a frame stopped.
#[derive(Clone, Copy)]
pub(super) enum ReadInterrupted {
    /// The source gave no more bytes.
    Source(Interrupted),
    /// Memory allocation failed for the payload.
    NoMemory,
}

/// The bytes received of one frame.
#[derive(Drop)]
pub(super) struct PartialFrame {
    head: [u8; MAX_HEAD],
    len: usize,
    // Has the full length of the payload once that is allocated, and is empty before.
    payload: Vec<u8>,
    filled: usize,
}

impl Model for PartialFrame {
    ghost use Rattle.std.specs.Prelude.{◌≡◌, ◌≤◌, length, take, vec_len};
    ghost use Rattle.wtp_wire.specs.PartialFrame.{Part};
    ghost use Rattle.wtp_wire.specs.Limits.{max_head};

    ghost Value = { Part };

    ghost view = { λ p. record {
      head = take p.len p.head;
      room = vec_len p.payload;
      payload = take p.filled
          p.payload.items;
    } };

    ghost invariant = { λ p. (length p.head ≡ max_head) × (p.len ≤ max_head)
        × (p.filled ≤ vec_len p.payload) };
}

impl PartialFrame {
    /// Creates a part that holds no bytes.
    pub(super) fn new(alloc: Global) -> Self
        ensures { result ≡ new_part }
    {
        PartialFrame {
            head: [0; MAX_HEAD],
            len: 0,
            payload: Vec::new(alloc),
            filled: 0,
        }
    }

    /// Returns the number of bytes held of the head.
    #[inline(always)]
    pub(super) fn head_len(&self) -> usize
        ensures { result ≡ length self.now.head }
    {
        self.len
    }

    /// Returns the number of bytes held of the payload.
    pub(super) fn payload_len(&self) -> usize
        ensures { result ≡ length self.now.payload }
    {
        self.filled
    }

    /// Returns the number of bytes held.
    #[inline(always)]
    pub(super) fn len(&self) -> usize
        ensures { result ≡ length (bytes_in self.now) }
    {
        self.len + self.filled
    }

    /// Reads until the head is complete, and the payload too if one of at most 4096 bytes follows.
    /// Returns what follows the head.
    ///
    /// The payload is allocated in full before its first byte is read. All bytes received are held,
    /// even if this returns an error.
    pub(super) fn advance<S: AsyncRead>(
        &mut self,
        source: &mut S,
    ) -> Result<Announcement, ReadInterrupted>
        requires { IsReading self.old }
        ensures keeps { AdvanceKeeps result self.old self.new }
        ensures grew { Grew (bytes_in self.old) (bytes_in self.new) }
        ensures moves { HasModel (S.model source.old) (S.model source.new)
            (StopMoves result (bytes_in self.old) (bytes_in self.new)) }
        ensures waits { HasModel (S.model source.old) (S.model source.new) (StopWaits result) }
    {
        match fill_prefix::<FramePrefix, S>(source, &mut self.head, &mut self.len) {
            Ok(()) => {}
            Err(interrupt) => return Err(ReadInterrupted::Source(interrupt)),
        }
        let announcement = read_head(&self.head[..self.len]);
        match announcement {
            Announcement::Payload(_, size) => match self.fill_payload(source, size as usize) {
                Ok(()) => Ok(announcement),
                Err(stop) => Err(stop),
            },
            _ => Ok(announcement),
        }
    }

    /// Reads until all `size` bytes of the payload are held.
    #[inline(always)]
    fn fill_payload<S: AsyncRead>(
        &mut self,
        source: &mut S,
        size: usize,
    ) -> Result<(), ReadInterrupted>
        requires { 0 < self.old.room → self.old.room ≡ size }
        ensures head { self.new.head ≡ self.old.head }
        ensures keeps { PayloadKeeps result size self.old self.new }
        ensures grew { Grew self.old.payload self.new.payload }
        ensures moves { HasModel (S.model source.old) (S.model source.new)
            (StopMoves result self.old.payload self.new.payload) }
        ensures waits { HasModel (S.model source.old) (S.model source.new) (StopWaits result) }
    {
        if !self.reserve(size) {
            return Err(ReadInterrupted::NoMemory);
        }
        match fill(source, self.payload.as_mut_slice(), &mut self.filled) {
            Ok(()) => Ok(()),
            Err(interrupt) => Err(ReadInterrupted::Source(interrupt)),
        }
    }

    /// Allocates a payload of `size` bytes, unless this was done before. Returns `false` if
    /// allocation failed.
    #[inline(always)]
    fn reserve(&mut self, size: usize) -> bool
        requires { 0 < self.old.room → self.old.room ≡ size }
        ensures head { self.new.head ≡ self.old.head }
        ensures payload { self.new.payload ≡ self.old.payload }
        ensures some { IsTrue result → self.new.room ≡ size }
        ensures none { result ≡ false → LacksPayloadRoom size self.old self.new }
    {
        if self.payload.len() == size {
            return true;
        }
        self.payload.reserve_exact(size).is_ok() && self.payload.resize(size, 0).is_ok()
    }

    /// Returns the payload, which must be complete, and resets the part.
    #[inline(always)]
    pub(super) fn take_payload(&mut self, alloc: Global) -> Vec<u8>
        requires { self.old.room ≡ length self.old.payload }
        ensures payload { result.items ≡ self.old.payload }
        ensures empty { self.new ≡ new_part }
    {
        self.len = 0;
        self.filled = 0;
        mem::replace(&mut self.payload, Vec::new(alloc))
    }
}
