//! Streams of a session: the first bytes identify the session, and the rest is application data.

use crate::server::{self, PeerStream};
use crate::turns::{TURNS, until_done, until_ready};
use anyhow::{Result, bail};
use std::alloc::Global;
use wtransport_proto::bytes::{AsyncRead, AsyncWrite, BytesWriterAsync, ReadStep};
use wtransport_proto::error::ErrorCode;
use wtransport_proto::ids::SessionId;
use wtransport_proto::stream::bilocal::{StreamBiLocalQuic, StreamBiLocalWT};
use wtransport_proto::stream::biremote::StreamBiRemoteWT;
use wtransport_proto::stream::unilocal::{StreamUniLocalH3, StreamUniLocalQuic};
use wtransport_proto::stream_header::StreamHeader;

/// Opens a bidirectional stream of a session.
pub fn open_bidirectional<W: AsyncWrite>(
    session: SessionId,
    sink: &mut W,
) -> Result<StreamBiLocalWT> {
    let upgrading = StreamBiLocalQuic::open_bi()
        .upgrade()
        .upgrade_async(session);
    until_done(upgrading, |state| state.poll(sink))
}

/// Opens a unidirectional stream of a session.
pub fn open_unidirectional<W: AsyncWrite>(
    session: SessionId,
    sink: &mut W,
) -> Result<StreamUniLocalH3> {
    let header = StreamHeader::new_webtransport(session);
    let upgrading = StreamUniLocalQuic::open_uni().upgrade_async(header);
    until_done(upgrading, |state| state.poll(sink))
}

/// Accepts a bidirectional stream of a session. A client must not accept any other (RFC 9114,
/// section 6.1).
pub fn accept_bidirectional<S: AsyncRead>(
    alloc: Global,
    source: &mut S,
) -> Result<StreamBiRemoteWT> {
    let PeerStream::Stream(stream) = server::accept(alloc, source)? else {
        return Err(ErrorCode::StreamCreation.into());
    };
    Ok(stream)
}

/// Sends application data.
pub fn send<W: AsyncWrite>(data: &[u8], sink: &mut W) -> Result<()> {
    let mut writing = sink.put_buffer(data);
    until_ready(|| writing.poll(sink))??;
    Ok(())
}

/// Receives application data up to the end of the stream.
pub fn receive<S: AsyncRead>(alloc: Global, source: &mut S) -> Result<Vec<u8>> {
    let mut data = Vec::new(alloc);
    let mut buffer = [0; 64];
    for _turn in 0..TURNS {
        match source.poll_read(&mut buffer) {
            ReadStep::Bytes(0) => return Ok(data),
            ReadStep::Bytes(n) => data.extend_from_slice(&buffer[..n])?,
            ReadStep::NotReady => {}
            ReadStep::Reset => bail!("the stream was reset"),
            ReadStep::NotConnected => bail!("the connection is lost"),
        }
    }
    bail!("the stream is not ready")
}
