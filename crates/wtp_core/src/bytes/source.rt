//! The `AsyncRead` trait of polled sources, and its implementation for slices.
ghost use Rattle.std.specs.Prelude.{◌≡◌, Option, Some, None, ◌≤◌, ◌↔◌, length, drop, min, false, IsTrue};
ghost use Rattle.wtp_core.specs.Source.{Source, StepKeepsLengths, StepModel, HasModel, Shows, TakesBuffered, all_ahead};

/// The result of one call of a source.
#[derive(Clone, Copy, Debug, PartialEq, Eq)]
pub enum ReadStep {
    /// This many bytes were moved to the start of the buffer; 0 at the end of the source, or if the
    /// buffer is empty.
    Bytes(usize),
    /// No byte is available yet.
    NotReady,
    /// The source was reset, and gives no more bytes.
    Reset,
    /// The source is no longer connected, and gives no more bytes.
    NotConnected,
}

/// A source of bytes that is polled and never blocks.
///
/// Implementations must satisfy the contract. Nothing checks this for an `impl` in unchecked code.
///
/// A source may declare a `model`: the bytes ahead, how they end, a count that each call raises
/// by at most one, and how often it was not ready. Each `NotReady` raises that last count by
/// exactly one. A source that keeps it in an integer must therefore use `checked_add`. If that
/// fails, it must not return `NotReady`: it gives the next bytes, or reports how it ends.
pub trait AsyncRead {
    // The model of the source, if it has one: the bytes ahead, how they end, a count of calls and
    // how often it was not ready. A source with a model never loses it.
    ghost model: { Self → Option Source } = { λ _. None };

    /// Moves bytes to the start of the buffer, or returns the reason why there are none. Returns
    /// `Bytes(0)` if the buffer is empty.
    fn poll_read(&mut self, buf: &mut [u8]) -> ReadStep
        ensures lengths { StepKeepsLengths result (length buf.new) }
        ensures model { StepModel result buf.new (model self.old) (model self.new) };

    /// Returns buffered bytes without taking them: a prefix of the bytes ahead. A source may return
    /// none here; all bytes then come from `poll_read`.
    fn buffered(&self) -> &[u8]
        ensures shows { Shows result.now (model self.now) }
    {
        &[]
    }

    /// Takes `count` of the bytes ahead and returns `true`, or changes nothing and returns `false`.
    /// A source may return `false` for any `count`, even if `buffered` returns that many bytes.
    fn take_buffered(&mut self, count: usize) -> bool
        ensures taken { IsTrue result
            → HasModel (model self.old) (model self.new) (TakesBuffered count) }
        ensures none { result ≡ false → self.new ≡ self.old }
    {
        let _ = count;
        false
    }
}

impl AsyncRead for &[u8] {
    ghost model = { λ s. Some (all_ahead s.now) };

    /// Gives as many bytes as fit into the buffer, and `Bytes(0)` at the end. The buffer's other
    /// bytes do not change. It is always ready.
    #[inline(always)]
    fn poll_read(&mut self, buf: &mut [u8]) -> ReadStep
        ensures lengths { StepKeepsLengths result (length buf.new) }
        ensures model { StepModel result buf.new (Some (all_ahead self.old.now))
            (Some (all_ahead self.new.now)) }
        ensures fits { result ≡ ReadStep.Bytes (min (length self.old.now) (length buf.old)) }
        ensures others { drop (length self.old.now) buf.new ≡ drop (length self.old.now) buf.old }
    {
        let n = self.len().min(buf.len());
        let (front, rest) = self.split_at(n);
        buf[..n].copy_from_slice(front);
        *self = rest;
        ReadStep::Bytes(n)
    }

    /// Returns all of the bytes.
    #[inline(always)]
    fn buffered(&self) -> &[u8]
        ensures shows { Shows result.now (Some (all_ahead self.now.now)) }
        ensures all { result.now ≡ self.now.now }
    {
        self
    }

    #[inline(always)]
    fn take_buffered(&mut self, count: usize) -> bool
        ensures taken { IsTrue result
            → TakesBuffered count (all_ahead self.old.now) (all_ahead self.new.now) }
        ensures none { result ≡ false → self.new ≡ self.old }
        ensures room { IsTrue result ↔ (count ≤ length self.old.now) }
    {
        if count > self.len() {
            return false;
        }
        *self = self.split_at(count).1;
        true
    }
}
