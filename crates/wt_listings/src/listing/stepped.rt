//! Lists frames that are read poll by poll.
ghost use Rattle.std.specs.Prelude.{◌≡◌, ◌⊎◌, ◌++◌, ◌<◌, IfOk};
ghost use Rattle.std.specs.List.{flat_map};
ghost use Rattle.wtransport_proto.specs.Run.{Ending};
ghost use Rattle.wtransport_proto.specs.StreamPolling.{IsStreamFault};
ghost use Rattle.wt_listings.specs.Lines.{line, run_listing, with_ending};
ghost use Rattle.wt_listings.specs.Listing.{HasText};
ghost use Rattle.wt_listings.specs.Stepped.{stepped_run};
ghost use Rattle.wt_listings.specs.Stepped.{ClosesStream};

use crate::listing::Listing;
use crate::listing::cut_source::CutSource;
use crate::listing::lines::Lines;
use std::alloc::{AllocError, Global};
use wtransport_proto::bytes;
use wtransport_proto::frame::{FrameOwned, FrameReading};
use wtransport_proto::stream::biremote::StreamBiRemoteQuic;
use wtransport_proto::stream::{Driven, IoReadError, drive};

/// The maximum number of polls per drive.
const POLLS: u32 = 1024;

/// Lists the frames of a bidirectional stream that the peer opened, recorded from its start to
/// its end. The frames are read poll by poll, from a source that returns at most `k` bytes per
/// call and is not ready once before each of these calls and once before its end. `k` is at least
/// 1; the listing does not depend on it.
///
/// The last line says that the stream ends, and not within a frame, or gives the error code that
/// ends it.
///
/// Returns [`AllocError`] if allocation fails.
pub fn list_stepped(alloc: Global, k: usize, input: &[u8]) -> Result<Listing, AllocError>
    requires { 0 < k }
    ensures listing { IfOk result (λ l. HasText l (run_listing (stepped_run input.now))) }
    ensures status { IfOk result (λ l. (l.status ≡ 0) ⊎ (l.status ≡ 2)) }
{
    let mut stream = StreamBiRemoteQuic::accept_bi().upgrade();
    let mut reading = FrameReading::new(alloc);
    let mut source = CutSource::new(input, k);
    let mut frames = Vec::new(alloc);
    let mut lines = Lines::new(alloc);
    // Each drive waits or consumes bytes. The source waits at most once more than it has bytes.
    'drives: loop {
        let driven = drive(&mut stream, &mut reading, &mut source, &mut frames, POLLS);
        add_lines(&mut lines, frames.as_slice())?;
        frames.clear();
        match driven {
            Driven::Ended(fault) => return close(lines, fault),
            Driven::Waiting | Driven::Spent => {}
            Driven::NoMemory => return Err(AllocError),
        }
    }
}

/// Appends the lines of `frames`.
fn add_lines(lines: &mut Lines, frames: &[FrameOwned]) -> Result<(), AllocError>
    ensures { IfOk result (λ _. lines.new ≡ lines.old ++ flat_map line frames.now) }
{
    for frame in frames {
        lines.frame(frame)?;
    }
    Ok(())
}

/// Returns the listing with a last line for the end of the stream: after a frame, or with an
/// error code.
fn close(lines: Lines, fault: IoReadError) -> Result<Listing, AllocError>
    requires { ClosesStream fault }
    ensures listing { (e : Ending) → IsStreamFault fault e
        → IfOk result (λ l. HasText l (with_ending lines e)) }
    ensures status { IfOk result (λ l. (l.status ≡ 0) ⊎ (l.status ≡ 2)) }
{
    match fault {
        IoReadError::H3(code) => lines.fault(code),
        IoReadError::IO(bytes::IoReadError::ImmediateFin) => lines.end(0),
        IoReadError::IO(_) => unreachable!(),
    }
}
