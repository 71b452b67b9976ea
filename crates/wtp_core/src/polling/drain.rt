//! Writing a buffer to a sink until the sink accepts no more.
ghost use Rattle.std.specs.Prelude.{◌≡◌, ◌≤◌, length, Ok};
ghost use Rattle.wtp_core.specs.Source.{HasModel};
ghost use Rattle.wtp_core.specs.Put.{writing, GoesOn, IsSent, WritePolled};

use crate::bytes::{AsyncWrite, IoWriteError, Polled, WriteStep};

/// Writes `bytes` from index `sent` on until the sink has taken all of them, and moves `sent` past
/// the bytes taken.
///
/// Returns `Ready(Ok(()))` once all bytes are taken, without calling the sink if none was left.
/// Otherwise `sent` is less than the length of `bytes`, and a later call continues from there. It
/// ends at the first result of the sink that is not a number of bytes taken:
///
/// - `Pending`, `Ready(Err(Stopped))`, `Ready(Err(NotConnected))`: the sink returned that result.
///   Its count of this result rose by one, and its other counts did not change.
/// - `NoMemory`: allocation failed in the sink. None of its counts changed.
pub fn drain<W: AsyncWrite>(
    sink: &mut W,
    bytes: &[u8],
    sent: &mut usize,
) -> Polled<Result<(), IoWriteError>>
    requires { sent.old ≤ length bytes.now }
    ensures on { GoesOn (writing bytes.now sent.old) (writing bytes.now sent.new) }
    ensures whole { IsSent result (writing bytes.now sent.new) }
    ensures polled { HasModel (W.model sink.old) (W.model sink.new)
        (WritePolled result (writing bytes.now sent.old) (writing bytes.now sent.new)) }
    ensures finished { sent.old ≡ length bytes.now
        → (sink.new ≡ sink.old) × (result ≡ Polled.Ready (Ok tt)) }
{
    while *sent < bytes.len() {
        match sink.poll_write(&bytes[*sent..]) {
            WriteStep::Bytes(n) => *sent += n,
            WriteStep::NotReady => return Polled::Pending,
            WriteStep::Stopped => return Polled::Ready(Err(IoWriteError::Stopped)),
            WriteStep::NotConnected => return Polled::Ready(Err(IoWriteError::NotConnected)),
            WriteStep::NoMemory => return Polled::NoMemory,
        }
    }
    Polled::Ready(Ok(()))
}
