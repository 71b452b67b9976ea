//! Unidirectional streams that the peer opens, including its control stream.

ghost use Rattle.std.specs.Prelude.{◌≡◌, ◌≢◌, IfNone, IfSome};
ghost use Rattle.wtransport_proto.specs.Header.{header_kind};
ghost use Rattle.wtransport_proto.specs.Streams.{CanRead, header_of};

use crate::turns::{TURNS, until_done};
use anyhow::{Result, bail};
use std::alloc::Global;
use wtransport_proto::bytes::{AsyncRead, Polled};
use wtransport_proto::error::ErrorCode;
use wtransport_proto::frame::{FrameKind, FrameOwned, FrameReading};
use wtransport_proto::settings::Settings;
use wtransport_proto::stream::IoReadError;
use wtransport_proto::stream::uniremote::{StreamUniRemoteH3, StreamUniRemoteQuic};
use wtransport_proto::stream_header::StreamKind;

/// Accepts a unidirectional stream by reading its header.
pub fn accept_unidirectional<S: AsyncRead>(source: &mut S) -> Result<StreamUniRemoteH3> {
    let accepting = StreamUniRemoteQuic::accept_uni().upgrade_async();
    until_done(accepting, |state| state.poll(source))
}

/// The peer's control stream. The ghost field preserves the precondition of `read_frame_async`
/// between polls.
#[derive(Drop)]
pub struct Control {
    stream: StreamUniRemoteH3,
    ghost readable: { CanRead stream },
}

impl Control {
    /// Wraps an accepted stream. Returns `None` if it is not a control stream.
    pub fn new(stream: StreamUniRemoteH3) -> Option<Self>
        ensures control { IfSome result (λ control. (control.stream ≡ stream)
            × (header_kind (header_of stream) ≡ StreamKind.Control)) }
        ensures other { IfNone result (header_kind (header_of stream) ≢ StreamKind.Control) }
    {
        if stream.kind() != StreamKind::Control {
            return None;
        }
        Some(Control { stream })
    }

    /// Reads the settings in the first frame.
    pub fn read_settings<S: AsyncRead>(
        &mut self,
        alloc: Global,
        source: &mut S,
    ) -> Result<Settings> {
        let mut reading = FrameReading::new(alloc);
        // A closure for `until_ready` would not preserve the ghost field.
        for _turn in 0..TURNS {
            match self.stream.read_frame_async(&mut reading, source) {
                Polled::Ready(frame) => return settings_of(alloc, frame),
                Polled::Pending | Polled::Again => {}
                Polled::NoMemory => bail!("out of memory"),
            }
        }
        bail!("the stream is not ready")
    }
}

/// Returns the settings in the first frame of a control stream (RFC 9114, section 6.2.1).
fn settings_of(alloc: Global, frame: Result<FrameOwned, IoReadError>) -> Result<Settings> {
    let frame = frame?;
    if frame.kind() != FrameKind::Settings {
        return Err(ErrorCode::MissingSettings.into());
    }
    Ok(Settings::with_frame(alloc, &frame)?)
}
