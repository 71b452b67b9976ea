//! Sources.

ghost use Rattle.std.specs.Prelude.{◌≡◌, Some, ◌+◌, ◌^◌, ◌<◌, length, false, if◌then◌else◌};
ghost use Rattle.wtp_core.specs.Source.{Source};
ghost use Rattle.wtp_core.specs.Polled.{stop};
ghost use Rattle.test_io.specs.Source.{ending_of};

use wtp_core::bytes::{AsyncRead, IoReadError, ReadStep};

/// How a source ends.
#[derive(Clone, Copy, Debug, PartialEq, Eq)]
pub enum End {
    /// It ends after its last byte.
    Fin,
    /// It is reset.
    Reset,
    /// The connection is lost.
    NotConnected,
}

impl End {
    /// All endings.
    pub const ALL: [End; 3] = [End::Fin, End::Reset, End::NotConnected];

    /// Returns the error of a read at this end, after `taken` bytes of the value being read.
    pub fn fault(self, taken: usize) -> IoReadError
        ensures { result ≡ stop taken (ending_of self) }
    {
        match self {
            End::Fin if taken == 0 => IoReadError::ImmediateFin,
            End::Fin => IoReadError::UnexpectedFin,
            End::Reset => IoReadError::Reset,
            End::NotConnected => IoReadError::NotConnected,
        }
    }
}

/// A source that returns one byte per call. It is not ready once before each byte and once before
/// its end, which it then repeats. It has a model of its bytes.
#[derive(Drop)]
pub struct OneByteSource<'a> {
    rest: &'a [u8],
    end: End,
    is_ready: bool,
    given: usize,
    ghost fits: { given + length rest.now < 2 ^ 64 },
}

impl<'a> OneByteSource<'a> {
    /// Creates a source over these bytes, followed by this end.
    pub fn new(bytes: &'a [u8], end: End) -> Self
        ensures { (result.rest.now ≡ bytes.now) × (result.end ≡ end) × (result.given ≡ 0)
            × (result.is_ready ≡ false) }
    {
        OneByteSource {
            rest: bytes,
            end,
            is_ready: false,
            given: 0,
        }
    }

    /// Returns the bytes that have not been read.
    pub fn rest(&self) -> &'a [u8]
        ensures { result.now ≡ self.now.rest.now }
    {
        self.rest
    }
}

impl AsyncRead for OneByteSource<'_> {
    ghost model = { λ s. Some (record {
      ahead = s.rest.now;
      ending = ending_of s.end;
      asked = 0;
      waits = s.given + (if s.is_ready then 1 else 0);
    }) };

    fn poll_read(&mut self, buf: &mut [u8]) -> ReadStep {
        if buf.is_empty() {
            return ReadStep::Bytes(0);
        }
        if !self.is_ready {
            self.is_ready = true;
            return ReadStep::NotReady;
        }
        if self.rest.is_empty() {
            return match self.end {
                End::Fin => ReadStep::Bytes(0),
                End::Reset => ReadStep::Reset,
                End::NotConnected => ReadStep::NotConnected,
            };
        }
        let (byte, rest) = self.rest.split_at(1);
        buf[..1].copy_from_slice(byte);
        self.rest = rest;
        self.given += 1;
        self.is_ready = false;
        ReadStep::Bytes(1)
    }
}

/// A source that returns a list of results, where `Bytes(n)` returns the next `n` bytes, in one
/// call if the buffer has room for them, and `Bytes(0)` is an end. After the list it returns the
/// remaining bytes, as a slice does. It has no model.
#[derive(Drop)]
pub struct ScriptedSource<'a> {
    rest: &'a [u8],
    steps: &'a [ReadStep],
    piece: usize,
}

impl<'a> ScriptedSource<'a> {
    /// Creates a source over these bytes that returns these results.
    pub fn new(bytes: &'a [u8], steps: &'a [ReadStep]) -> Self
        ensures { (result.rest.now ≡ bytes.now) × (result.steps.now ≡ steps.now)
            × (result.piece ≡ 0) }
    {
        ScriptedSource {
            rest: bytes,
            steps,
            piece: 0,
        }
    }

    /// Returns the bytes that have not been read.
    pub fn rest(&self) -> &'a [u8]
        ensures { result.now ≡ self.now.rest.now }
    {
        self.rest
    }

    /// Returns the number of results that have not been started.
    pub fn left(&self) -> usize
        ensures { result ≡ length self.now.steps.now }
    {
        self.steps.len()
    }
}

impl AsyncRead for ScriptedSource<'_> {
    fn poll_read(&mut self, buf: &mut [u8]) -> ReadStep {
        if buf.is_empty() {
            return ReadStep::Bytes(0);
        }
        if self.piece == 0 {
            match self.steps.split_first() {
                Some((step, steps)) => {
                    self.steps = steps;
                    match *step {
                        ReadStep::Bytes(n) => self.piece = n,
                        other => return other,
                    }
                }
                None => self.piece = self.rest.len(),
            }
        }
        let n = self.piece.min(self.rest.len()).min(buf.len());
        let (front, rest) = self.rest.split_at(n);
        buf[..n].copy_from_slice(front);
        self.rest = rest;
        self.piece -= n;
        ReadStep::Bytes(n)
    }
}
