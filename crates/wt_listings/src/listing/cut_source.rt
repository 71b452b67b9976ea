//! A source over recorded bytes that returns few bytes per call and is not always ready.
ghost use Rattle.std.specs.Prelude.{◌≡◌, ◌+◌, ◌^◌, ◌<◌, ◌≤◌, length, Some, false, if◌then◌else◌};
ghost use Rattle.wtransport_proto.specs.Source.{StepKeepsLengths, StepModel};
ghost use Rattle.wt_listings.specs.CutSource.{source_of, Cuts};

use wtransport_proto::bytes::{AsyncRead, ReadStep};

/// A source over a completely recorded stream. It returns at most `max_len` bytes per call, then
/// the end of the stream.
///
/// It is not ready once before each call that returns bytes, and once before the first end. It
/// waits at no other time, so the number of waits is at most the number of bytes plus one.
#[derive(Drop)]
pub(crate) struct CutSource<'a> {
    rest: &'a [u8],
    max_len: usize,
    is_ready: bool,
    waits_left: usize,
    ghost moves: { 0 < max_len },
    ghost few_waits: { length rest.now + (if is_ready then 0 else 1) ≤ waits_left },
}

impl<'a> CutSource<'a> {
    /// Creates a source over `bytes` that returns at most `max_len` bytes per call. `max_len` is at
    /// least 1.
    pub(crate) fn new(bytes: &'a [u8], max_len: usize) -> Self
        requires { 0 < max_len }
        ensures bytes { result.rest.now ≡ bytes.now }
        ensures most { result.max_len ≡ max_len }
        ensures waits { result.waits_left ≡ length bytes.now + 1 }
        ensures fits { result.waits_left < 2 ^ 64 }
        ensures not_ready { result.is_ready ≡ false }
    {
        CutSource {
            rest: bytes,
            max_len,
            is_ready: false,
            waits_left: bytes.len() + 1,
        }
    }
}

impl AsyncRead for CutSource<'_> {
    ghost model = { λ s. Some (source_of s.rest.now s.waits_left) };

    fn poll_read(&mut self, buf: &mut [u8]) -> ReadStep
        ensures lengths { StepKeepsLengths result (length buf.new) }
        ensures model { StepModel result buf.new
            (Some (source_of self.old.rest.now self.old.waits_left))
            (Some (source_of self.new.rest.now self.new.waits_left)) }
        ensures cuts { Cuts result (length buf.new)
            self.old.max_len self.old.is_ready self.new.is_ready }
        ensures most { self.new.max_len ≡ self.old.max_len }
    {
        if buf.is_empty() {
            return ReadStep::Bytes(0);
        }
        if !self.is_ready {
            self.is_ready = true;
            self.waits_left -= 1;
            return ReadStep::NotReady;
        }
        let count = self.max_len.min(self.rest.len()).min(buf.len());
        let (front, rest) = self.rest.split_at(count);
        buf[..count].copy_from_slice(front);
        self.rest = rest;
        self.is_ready = count == 0;
        ReadStep::Bytes(count)
    }
}
