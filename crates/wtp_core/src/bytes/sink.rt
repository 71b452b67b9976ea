//! The `AsyncWrite` trait of polled sinks, and its implementation for vectors.
ghost use Rattle.std.specs.Prelude.{Option, Some, None, length};
ghost use Rattle.wtp_core.specs.Sink.{Sink, SinkKeepsLengths, SinkModel, all_taken, TakesWhole};

/// The result of one call of a sink.
#[derive(Clone, Copy, Debug, PartialEq, Eq)]
pub enum WriteStep {
    /// This many bytes were taken from the start of the buffer; 0 only if the buffer is empty.
    Bytes(usize),
    /// The sink accepts no bytes yet.
    NotReady,
    /// The peer accepts no more bytes.
    Stopped,
    /// The sink is not connected, and accepts no more bytes.
    NotConnected,
    /// Memory allocation failed.
    NoMemory,
}

/// A sink of bytes that is polled and never blocks.
///
/// Implementations must satisfy the contract. Nothing checks this for an `impl` in unchecked code.
///
/// A sink may declare a `model`: the bytes that it took, and how often it returned `NotReady`,
/// `Stopped` and `NotConnected`. Each of these results raises its own count by exactly one, and no
/// other count. A sink that keeps a modelled count in an integer must therefore use `checked_add`.
/// If that fails, it must not return that result: it takes a byte, or returns `NoMemory`.
pub trait AsyncWrite {
    // The model of the sink, if it has one: the bytes taken, and how often it was not ready,
    // stopped and not connected. A sink with a model never loses it.
    ghost model: { Self → Option Sink } = { λ _. None };

    /// Takes at least one byte from the start of the buffer, or returns the reason why it takes
    /// none. Returns `Bytes(0)` if the buffer is empty.
    fn poll_write(&mut self, buf: &[u8]) -> WriteStep
        ensures lengths { SinkKeepsLengths result (length buf.now) }
        ensures model { SinkModel result buf.now (model self.old) (model self.new) };
}

impl AsyncWrite for Vec<u8> {
    ghost model = { λ s. Some (all_taken s.items) };

    /// Takes the whole buffer, or returns `NoMemory`.
    fn poll_write(&mut self, buf: &[u8]) -> WriteStep
        ensures lengths { SinkKeepsLengths result (length buf.now) }
        ensures model { SinkModel result buf.now (Some (all_taken self.old.items))
            (Some (all_taken self.new.items)) }
        ensures whole { TakesWhole result (length buf.now) }
    {
        if buf.is_empty() {
            return WriteStep::Bytes(0);
        }
        match self.extend_from_slice(buf) {
            Ok(()) => WriteStep::Bytes(buf.len()),
            Err(_) => WriteStep::NoMemory,
        }
    }
}
