//! Skipping bytes from a source.
ghost use Rattle.std.specs.Prelude.{◌≡◌, ◌+◌, ◌-◌, ◌<◌, ◌≤◌, OnOk, OnErr};
ghost use Rattle.wtp_core.specs.Source.{HasModel, StepWaits};
ghost use Rattle.wtp_core.specs.Fill.{InterruptWaits};
ghost use Rattle.wtp_core.specs.SkipAhead.{max_skipped, SkipModel, CountFits, StepSkips};

use crate::bytes::{AsyncRead, ReadStep};
use crate::polling::fill::Interrupted;

// The maximum number of bytes that one call skips.
const MAX_SKIPPED: u64 = 4096;

// The maximum number of bytes that one call of the source skips.
const CHUNK_LEN: usize = 64;

/// Skips `skip_remaining` bytes, but at most 4096 in one call, and lowers `skip_remaining` by the
/// number of bytes skipped. Returns `Ok` once none is left to skip, or once 4096 were skipped.
///
/// On an error, bytes are left to skip: `skip_remaining` fell by the number of bytes taken from the
/// source, which is less than 4096, and a later call continues from there. The errors are those of
/// `fill`.
pub fn skip_bytes<S: AsyncRead>(source: &mut S, skip_remaining: &mut u64) -> Result<(), Interrupted>
    ensures fewer { skip_remaining.new ≤ skip_remaining.old }
    ensures most { skip_remaining.old ≤ skip_remaining.new + max_skipped }
    ensures whole { OnOk result (0 < skip_remaining.new
        → skip_remaining.new + max_skipped ≡ skip_remaining.old) }
    ensures part { OnErr result (0 < skip_remaining.new) }
    ensures some { OnErr result (skip_remaining.old < skip_remaining.new + max_skipped) }
    ensures model { SkipModel result (skip_remaining.old - skip_remaining.new)
        (S.model source.old) (S.model source.new) }
    ensures waits { HasModel (S.model source.old) (S.model source.new) (InterruptWaits result) }
{
    let mut room = MAX_SKIPPED;
    let mut scratch = [0; CHUNK_LEN];
    while *skip_remaining > 0 && room > 0 {
        let want = (*skip_remaining).min(room).min(CHUNK_LEN as u64);
        match read_some(source, &mut scratch, want as usize) {
            ReadStep::Bytes(0) => return Err(Interrupted::Fin),
            ReadStep::Bytes(n) => {
                *skip_remaining -= n as u64;
                room -= n as u64;
            }
            ReadStep::NotReady => return Err(Interrupted::NotReady),
            ReadStep::Reset => return Err(Interrupted::Reset),
            ReadStep::NotConnected => return Err(Interrupted::NotConnected),
        }
    }
    Ok(())
}

// Calls the source once, with the first `want` bytes of a buffer.
fn read_some<S: AsyncRead>(source: &mut S, buf: &mut [u8; CHUNK_LEN], want: usize) -> ReadStep
    requires some { 0 < want }
    requires fits { want ≤ 64 }
    ensures lengths { CountFits result want }
    ensures model { StepSkips result (S.model source.old) (S.model source.new) }
    ensures waits { HasModel (S.model source.old) (S.model source.new) (StepWaits result) }
{
    source.poll_read(&mut buf[..want])
}
