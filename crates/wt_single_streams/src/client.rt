//! A client for WebTransport sessions.
ghost use Rattle.std.specs.Prelude.{◌≡◌, ◌/◌, IfOk};
ghost use Rattle.wtransport_proto.specs.Datagram.{datagram_wire};

use crate::server::send_headers;
use crate::turns::until_ready;
use anyhow::Result;
use std::alloc::Global;
use std::borrow::CowSlice;
use wtransport_proto::bytes::{AsyncRead, AsyncWrite, BytesWriter};
use wtransport_proto::capsule::capsules::CloseWebTransportSession;
use wtransport_proto::datagram::Datagram;
use wtransport_proto::frame::{Frame, FrameReading};
use wtransport_proto::ids::{QStreamId, SessionId};
use wtransport_proto::session::{SessionRequest, SessionResponse, response_of_frame};
use wtransport_proto::stream::bilocal::StreamBiLocalQuic;
use wtransport_proto::stream::session::StreamSession;

/// Returns a session request for a URL, with an origin.
fn request_for(alloc: Global, url: &str) -> Result<SessionRequest> {
    let mut request = SessionRequest::new(alloc, url)?;
    request.insert("origin", "https://example.com")?;
    Ok(request)
}

/// Sends a session request for a URL. Returns the session's stream.
pub fn request<W: AsyncWrite>(alloc: Global, url: &str, sink: &mut W) -> Result<StreamSession> {
    let request = request_for(alloc, url)?;
    send_headers(alloc, request.headers(), sink)?;
    let stream = StreamBiLocalQuic::open_bi().upgrade();
    Ok(stream.into_session(request))
}

/// Reads the response to the request. The source is then positioned right after the response.
pub fn read_response<S: AsyncRead>(
    alloc: Global,
    session: &StreamSession,
    source: &mut S,
) -> Result<SessionResponse> {
    let mut reading = FrameReading::new(alloc);
    let frame = until_ready(|| session.read_frame_async(&mut reading, source))??;
    Ok(response_of_frame(alloc, &frame)?)
}

/// Closes a session with an application error code and a reason, as a capsule in DATA frames.
pub fn close<W: BytesWriter>(alloc: Global, code: u32, reason: &str, out: &mut W) -> Result<()> {
    let mut capsule = Vec::new(alloc);
    CloseWebTransportSession::new(alloc, code, reason)?.write(&mut capsule)?;
    write_data(capsule.as_slice(), out)
}

/// Writes DATA frames of at most 5 bytes each.
fn write_data<W: BytesWriter>(data: &[u8], out: &mut W) -> Result<()> {
    for piece in data.chunks(5) {
        Frame::new_data(CowSlice::Borrowed(piece)).write(out)?;
    }
    Ok(())
}

/// Returns a datagram of a session with this payload.
pub fn datagram(alloc: Global, session: SessionId, payload: &[u8]) -> Result<Vec<u8>>
    ensures { IfOk result (λ v. v.items ≡ datagram_wire (session / 4, payload.now)) }
{
    let datagram = Datagram::new(QStreamId::from_session_id(session), payload);
    let mut buffer = [0; 1200];
    let size = datagram.write(&mut buffer)?;
    Ok(Vec::from_slice(alloc, &buffer[..size])?)
}
