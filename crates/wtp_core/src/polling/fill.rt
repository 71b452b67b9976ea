//! Reading from a source into a buffer until it is full or the source gives no more.
ghost use Rattle.std.specs.Prelude.{◌≡◌, ◌≤◌, length, take};
ghost use Rattle.wtp_core.specs.Source.{HasModel};
ghost use Rattle.wtp_core.specs.Fill.{FillKeepsLengths, FillModel, InterruptWaits, interrupt_fault, InterruptsAs};

use crate::bytes::{AsyncRead, IoReadError, Polled, ReadStep};

/// The reason why a buffer was not filled.
#[derive(Clone, Copy, Debug)]
pub enum Interrupted {
    /// The source was not ready.
    NotReady,
    /// The source ended.
    Fin,
    /// The source was reset.
    Reset,
    /// The source is not connected.
    NotConnected,
}

/// Reads into `buf` from index `at` on until it is full, and moves `at` past the bytes received.
///
/// The bytes before the old `at` do not change. On an error, all bytes received are in `buf[..at]`,
/// `at` is less than the length of `buf`, and a later call continues from there:
///
/// - `NotReady`: the source was not ready. Its count of waits rose by one, and the bytes not yet
///   received are still ahead.
/// - `Fin`, `Reset`, `NotConnected`: the source ended in this way, and has no bytes ahead.
#[inline(always)]
pub fn fill<S: AsyncRead>(source: &mut S, buf: &mut [u8], at: &mut usize) -> Result<(), Interrupted>
    requires { at.old ≤ length buf.old }
    ensures front { take at.old buf.new ≡ take at.old buf.old }
    ensures forward { at.old ≤ at.new }
    ensures lengths { FillKeepsLengths result at.new (length buf.new) }
    ensures model { FillModel result (take at.old buf.old) (take at.new buf.new)
        (S.model source.old) (S.model source.new) }
    ensures waits { HasModel (S.model source.old) (S.model source.new) (InterruptWaits result) }
{
    while *at < buf.len() {
        match source.poll_read(&mut buf[*at..]) {
            ReadStep::Bytes(0) => return Err(Interrupted::Fin),
            ReadStep::Bytes(n) => *at += n,
            ReadStep::NotReady => return Err(Interrupted::NotReady),
            ReadStep::Reset => return Err(Interrupted::Reset),
            ReadStep::NotConnected => return Err(Interrupted::NotConnected),
        }
    }
    Ok(())
}

impl Interrupted {
    /// Converts the reason to a read error, or returns `None` if the source was not ready. `taken`
    /// is the number of bytes received of the item: `Fin` becomes `ImmediateFin` if it is 0, and
    /// `UnexpectedFin` otherwise. The others become the errors of the same names.
    pub fn fault(self, taken: usize) -> Option<IoReadError>
        ensures { result ≡ interrupt_fault self taken }
    {
        match self {
            Interrupted::NotReady => None,
            Interrupted::Fin if taken == 0 => Some(IoReadError::ImmediateFin),
            Interrupted::Fin => Some(IoReadError::UnexpectedFin),
            Interrupted::Reset => Some(IoReadError::Reset),
            Interrupted::NotConnected => Some(IoReadError::NotConnected),
        }
    }
}

/// Returns the result of a poll that stopped after `taken` bytes: `Pending` if the source was not
/// ready, and otherwise the error that `Interrupted::fault` returns.
pub fn interrupt_result<T, E: From<IoReadError>>(
    interrupt: Interrupted,
    taken: usize,
) -> Polled<Result<T, E>>
    ensures { InterruptsAs E.from_gives (interrupt_fault interrupt taken) result }
{
    match interrupt.fault(taken) {
        None => Polled::Pending,
        Some(fault) => Polled::Ready(Err(E::from(fault))),
    }
}
