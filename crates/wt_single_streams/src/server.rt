//! A server for WebTransport sessions.
ghost use Rattle.std.specs.Prelude.{◌≡◌, ◌≢◌, IfOk, OnErr, codes};
ghost use Rattle.wt_single_streams.specs.Datagrams.{Receives};
ghost use Rattle.wt_single_streams.specs.Responses.{response_with};

use crate::turns::TURNS;
use anyhow::{Result, bail};
use std::alloc::Global;
use wtransport_proto::bytes::{AsyncRead, AsyncWrite};
use wtransport_proto::datagram::Datagram;
use wtransport_proto::exchange::send;
use wtransport_proto::frame::{Frame, FrameReading};
use wtransport_proto::headers::Headers;
use wtransport_proto::ids::{SessionId, StatusCode};
use wtransport_proto::session::{SessionRequest, SessionResponse, request_of_frame};
use wtransport_proto::settings::Settings;
use wtransport_proto::stream::BiAccepted;
use wtransport_proto::stream::biremote::{StreamBiRemoteH3, StreamBiRemoteQuic, StreamBiRemoteWT};
use wtransport_proto::stream::session::StreamSession;
use wtransport_proto::stream::unilocal::StreamUniLocalQuic;
use wtransport_proto::stream_header::StreamHeader;

/// Writes the control stream: its stream type and the settings.
pub fn write_control(alloc: Global, out: &mut Vec<u8>) -> Result<()> {
    let settings = Settings::builder(alloc)
        .enable_connect_protocol()?
        .enable_h3_datagrams()?
        .enable_webtransport()?
        .build();
    let upgraded = StreamUniLocalQuic::open_uni().upgrade(StreamHeader::new_control(), out);
    let mut stream = upgraded.map_err(|(_, error)| error)?;
    stream.write_frame(settings.generate_frame(alloc)?, out)?;
    Ok(())
}

/// A bidirectional stream that the peer opened.
#[derive(Drop)]
pub enum PeerStream {
    /// A session request.
    Request(StreamBiRemoteH3, SessionRequest),
    /// A stream of a session. All bytes that follow are application data.
    Stream(StreamBiRemoteWT),
}

/// Accepts a bidirectional stream by reading its first frame.
pub fn accept<S: AsyncRead>(alloc: Global, source: &mut S) -> Result<PeerStream> {
    let stream = StreamBiRemoteQuic::accept_bi().upgrade();
    let mut accepting = stream.accept_async(FrameReading::new(alloc));
    for _turn in 0..TURNS {
        accepting = match accepting.poll(source) {
            BiAccepted::WebTransport(stream) => return Ok(PeerStream::Stream(stream)),
            BiAccepted::Request(stream, _, frame) => return read_request(alloc, stream, &frame),
            BiAccepted::Again(state) | BiAccepted::Pending(state) => state,
            BiAccepted::NoMemory(_) => bail!("out of memory"),
            BiAccepted::Failed(_, fault) => return Err(fault.into()),
        };
    }
    bail!("the stream is not ready")
}

/// Reads the request in the first frame.
fn read_request(alloc: Global, stream: StreamBiRemoteH3, frame: &Frame<'_>) -> Result<PeerStream> {
    Ok(PeerStream::Request(stream, request_of_frame(alloc, frame)?))
}

/// Sends the fields of a request or response in a HEADERS frame.
pub fn send_headers<W: AsyncWrite>(alloc: Global, headers: &Headers, sink: &mut W) -> Result<()> {
    let frame = headers.generate_frame(alloc)?;
    send(&frame, sink, TURNS)?;
    Ok(())
}

/// Returns the response for a path.
fn response_for(alloc: Global, path: &str) -> Result<SessionResponse>
    ensures chat { path.now ≡ codes "/chat" → IfOk result (λ r. r ≡ response_with 200) }
    ensures other { path.now ≢ codes "/chat" → IfOk result (λ r. r ≡ response_with 404) }
{
    let code = match path {
        "/chat" => StatusCode::OK,
        _ => StatusCode::NOT_FOUND,
    };
    let mut response = SessionResponse::with_status_code(alloc, code)?;
    response.add("server", "an endpoint")?;
    Ok(response)
}

/// Responds to a request. Returns the session, or `None` if the path is unknown.
pub fn respond<W: AsyncWrite>(
    alloc: Global,
    stream: StreamBiRemoteH3,
    request: SessionRequest,
    sink: &mut W,
) -> Result<Option<StreamSession>> {
    let response = response_for(alloc, request.path())?;
    send_headers(alloc, response.headers(), sink)?;
    if !response.code().is_successful() {
        return Ok(None);
    }
    Ok(Some(stream.into_session(request)))
}

/// Reads a datagram. Appends its payload to `out` and returns its session ID. On an error `out` is
/// unchanged.
pub fn read_datagram(bytes: &[u8], out: &mut Vec<u8>) -> Result<SessionId>
    ensures ok { IfOk result (λ id. Receives bytes.now id out.old.items out.new.items) }
    ensures err { OnErr result (out.new.items ≡ out.old.items) }
{
    let datagram = Datagram::read(bytes)?;
    out.extend_from_slice(datagram.payload())?;
    Ok(datagram.qstream_id().into_session_id())
}
