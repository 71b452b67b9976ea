//! Sinks.

ghost use Rattle.std.specs.Prelude.{◌≡◌, Some, ◌+◌, ◌-◌, ◌^◌, ◌<◌, ◌≤◌, [], length, drop};
ghost use Rattle.test_io.specs.Sink.{one_a_call};

use std::alloc::Global;
use wtp_core::bytes::{AsyncWrite, WriteStep};

/// The results of a sink that accepts eight bytes, one per call, then stops, and is then
/// disconnected.
static ONE_A_CALL: [WriteStep; 10] = [
    WriteStep::Bytes(1),
    WriteStep::Bytes(1),
    WriteStep::Bytes(1),
    WriteStep::Bytes(1),
    WriteStep::Bytes(1),
    WriteStep::Bytes(1),
    WriteStep::Bytes(1),
    WriteStep::Bytes(1),
    WriteStep::Stopped,
    WriteStep::NotConnected,
];

/// Returns the results of a sink that accepts `bytes` bytes (at most 8), one per call, then
/// stops, and is then disconnected. For more than 8 the list is empty.
pub fn stops_after(bytes: usize) -> &'static [WriteStep]
    ensures few { bytes ≤ 8 → result.now ≡ drop (8 - bytes) one_a_call }
    ensures more { 8 < bytes → result.now ≡ [] }
{
    if bytes > 8 {
        return &[];
    }
    &ONE_A_CALL[8 - bytes..]
}

/// The results of a sink that accepts 32 bytes, one per call, and is not ready before each byte.
pub static BYTE_BY_BYTE: [[WriteStep; 2]; 32] = [[WriteStep::NotReady, WriteStep::Bytes(1)]; 32];

/// A sink that returns a list of results, where `Bytes(n)` accepts at most `n` bytes and at least
/// one. After the list it accepts everything, as a vector does. It has a model of the bytes that
/// it accepted.
#[derive(Drop)]
pub struct ScriptedSink<'a> {
    steps: &'a [WriteStep],
    taken: Vec<u8>,
    waits: usize,
    stops: usize,
    losses: usize,
    ghost waits_fit: { waits + length steps.now < 2 ^ 64 },
    ghost stops_fit: { stops + length steps.now < 2 ^ 64 },
    ghost losses_fit: { losses + length steps.now < 2 ^ 64 },
}

impl<'a> ScriptedSink<'a> {
    /// Creates a sink that returns these results.
    pub fn new(alloc: Global, steps: &'a [WriteStep]) -> Self
        ensures { (result.steps.now ≡ steps.now) × (result.taken.items ≡ []) × (result.waits ≡ 0)
            × (result.stops ≡ 0) × (result.losses ≡ 0) }
    {
        ScriptedSink {
            steps,
            taken: Vec::new(alloc),
            waits: 0,
            stops: 0,
            losses: 0,
        }
    }

    /// Returns the bytes that were written.
    pub fn output(&self) -> &[u8]
        ensures { result.now ≡ self.now.taken.items }
    {
        self.taken.as_slice()
    }

    /// Returns the number of results that have not been returned.
    pub fn left(&self) -> usize
        ensures { result ≡ length self.now.steps.now }
    {
        self.steps.len()
    }
}

impl AsyncWrite for ScriptedSink<'_> {
    ghost model = { λ s. Some (record {
      taken = s.taken.items;
      waits = s.waits;
      stops = s.stops;
      losses = s.losses;
    }) };

    fn poll_write(&mut self, buf: &[u8]) -> WriteStep {
        if buf.is_empty() {
            return WriteStep::Bytes(0);
        }
        let mut n = buf.len();
        if let Some((step, rest)) = self.steps.split_first() {
            self.steps = rest;
            match *step {
                WriteStep::Bytes(most) => n = n.min(most.max(1)),
                WriteStep::NotReady => {
                    self.waits += 1;
                    return WriteStep::NotReady;
                }
                WriteStep::Stopped => {
                    self.stops += 1;
                    return WriteStep::Stopped;
                }
                WriteStep::NotConnected => {
                    self.losses += 1;
                    return WriteStep::NotConnected;
                }
                WriteStep::NoMemory => return WriteStep::NoMemory,
            }
        }
        match self.taken.extend_from_slice(&buf[..n]) {
            Ok(()) => WriteStep::Bytes(n),
            Err(_) => WriteStep::NoMemory,
        }
    }
}
