//! Reads the frames of a stream that the peer opened: from a buffer, poll by poll, and driven
//! into a list. Each call returns the number of frames, or -1 if the bytes are invalid or
//! allocation failed.
ghost use Rattle.std.specs.Prelude.{◌≡◌, ◌≢◌, ◌<◌, ◌^◌, true, pos, negsuc};
ghost use Rattle.wtransport_proto.specs.Rule.{RemoteBi};
ghost use Rattle.wtransport_proto.specs.Run.{run, MayGoOn, Ended};
ghost use Rattle.wt_bench.specs.Frames.{count_of};

use std::alloc::Global;
use wtransport_proto::bytes;
use wtransport_proto::bytes::{BufferReader, Polled};
use wtransport_proto::frame::FrameReading;
use wtransport_proto::stream::biremote::StreamBiRemoteQuic;
use wtransport_proto::stream::{Driven, IoReadError, drive};

/// The maximum number of polls per drive.
const POLLS: u32 = 16;

/// Returns this number of frames.
fn answer(frames: usize) -> i64
    requires { frames < 2 ^ 63 }
    ensures { result ≡ pos frames }
{
    frames.cast_signed() as i64
}

/// Reads complete frames from bytes that may continue. The lengths of their payloads are added to
/// `payloads`.
#[unsafe(no_mangle)]
pub extern "C" fn wt_bench_list(bytes: &[u8], payloads: &mut usize) -> i64
    ensures { result ≡ count_of (run RemoteBi true bytes.now MayGoOn) }
{
    let mut reader = BufferReader::new(bytes);
    let mut stream = StreamBiRemoteQuic::accept_bi().upgrade();
    let mut frames: usize = 0;
    'frames: loop {
        match stream.read_frame_from_buffer(&mut reader) {
            Ok(Some(frame)) => {
                frames += 1;
                *payloads = payloads.wrapping_add(frame.payload().len());
            }
            Ok(None) => return answer(frames),
            Err(_) => return -1,
        }
    }
}

/// Reads frames poll by poll up to the end of the bytes.
#[unsafe(no_mangle)]
pub extern "C" fn wt_bench_poll(alloc: Global, bytes: &[u8]) -> i64
    ensures { result ≢ negsuc 0 → result ≡ count_of (run RemoteBi true bytes.now Ended) }
{
    let mut source = bytes;
    let mut reading = FrameReading::new(alloc);
    let mut stream = StreamBiRemoteQuic::accept_bi().upgrade();
    let mut frames: usize = 0;
    for _turn in 0..u32::MAX {
        match stream.read_frame_async(&mut reading, &mut source) {
            Polled::Ready(Ok(_)) => frames += 1,
            Polled::Again => {}
            Polled::Ready(Err(IoReadError::IO(bytes::IoReadError::ImmediateFin))) => {
                return answer(frames);
            }
            _ => return -1,
        }
    }
    -1
}

/// Reads frames in drives of 16 polls up to the end of the bytes. The frames of a drive are
/// dropped before the next one.
#[unsafe(no_mangle)]
pub extern "C" fn wt_bench_drive(alloc: Global, bytes: &[u8]) -> i64
    ensures { result ≢ negsuc 0 → result ≡ count_of (run RemoteBi true bytes.now Ended) }
{
    let mut source = bytes;
    let mut reading = FrameReading::new(alloc);
    let mut stream = StreamBiRemoteQuic::accept_bi().upgrade();
    let mut out = Vec::new(alloc);
    let mut frames: usize = 0;
    for _turn in 0..u32::MAX {
        out.clear();
        match drive(&mut stream, &mut reading, &mut source, &mut out, POLLS) {
            Driven::Spent => frames += out.len(),
            Driven::Ended(IoReadError::IO(bytes::IoReadError::ImmediateFin)) => {
                return answer(frames + out.len());
            }
            _ => return -1,
        }
    }
    -1
}
