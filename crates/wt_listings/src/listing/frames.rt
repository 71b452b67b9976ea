//! The listing of frames that are read from a buffer.
ghost use Rattle.std.specs.Prelude.{◌≡◌, ◌⊎◌, IfOk};
ghost use Rattle.wtransport_proto.specs.Header.{ControlHeader};
ghost use Rattle.wtransport_proto.specs.Run.{run, MayGoOn};
ghost use Rattle.wtransport_proto.specs.Streams.{header_of};
ghost use Rattle.wt_listings.specs.Lines.{run_listing};
ghost use Rattle.wt_listings.specs.Frames.{recorded_run};
ghost use Rattle.wt_listings.specs.Listing.{HasText};

use crate::listing::lines::Lines;
use crate::listing::{ListKind, Listing};
use std::alloc::{AllocError, Global};
use wtransport_proto::bytes::BufferReader;
use wtransport_proto::stream::ReadsFrames;
use wtransport_proto::stream::bilocal::StreamBiLocalQuic;
use wtransport_proto::stream::biremote::StreamBiRemoteQuic;
use wtransport_proto::stream::uniremote::{MaybeUpgradeH3, StreamUniRemoteH3, StreamUniRemoteQuic};

/// Returns the listing of the frames in the recorded bytes of a stream. The last line says how many
/// bytes come after the last frame, or which fault ends the stream.
///
/// Returns [`AllocError`] if allocation fails.
pub fn list_frames(alloc: Global, kind: ListKind, input: &[u8]) -> Result<Listing, AllocError>
    ensures listing { IfOk result (λ l. HasText l (run_listing (recorded_run kind input.now))) }
    ensures status { IfOk result (λ l. (l.status ≡ 0) ⊎ (l.status ≡ 2)) }
{
    match kind {
        ListKind::BiRemote => list_stream(alloc, StreamBiRemoteQuic::accept_bi().upgrade(), input),
        ListKind::BiLocal => list_stream(alloc, StreamBiLocalQuic::open_bi().upgrade(), input),
        ListKind::Control => list_stream(alloc, control_stream(), input),
    }
}

/// Returns the listing of a stream of which these bytes were recorded.
#[tactic(auto, using(crate::proofs::ListingLemmas::begun_line))]
fn list_stream<S: ReadsFrames + Drop>(
    alloc: Global,
    mut stream: S,
    input: &[u8],
) -> Result<Listing, AllocError>
    requires { S.can stream }
    ensures listing { IfOk result (λ l.
        HasText l (run_listing (run S.role (S.first stream) input.now MayGoOn))) }
    ensures status { IfOk result (λ l. (l.status ≡ 0) ⊎ (l.status ≡ 2)) }
{
    let mut reader = BufferReader::new(input);
    let mut lines = Lines::new(alloc);
    'frames: loop {
        match stream.read_frame_from_buffer(&mut reader) {
            Ok(Some(frame)) => lines.frame(&frame)?,
            Ok(None) => return lines.end(reader.capacity()),
            Err(code) => return lines.fault(code),
        }
    }
}

/// Returns a control stream of the peer, whose type number was read.
fn control_stream() -> StreamUniRemoteH3
    ensures { header_of result ≡ ControlHeader }
{
    let mut type_number = [0x00].as_slice();
    match StreamUniRemoteQuic::accept_uni().upgrade(&mut type_number) {
        Ok(MaybeUpgradeH3::H3(stream)) => stream,
        Ok(MaybeUpgradeH3::Quic(_)) => unreachable!(),
        Err(_) => unreachable!(),
    }
}
