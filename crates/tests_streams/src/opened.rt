//! New streams, a session, and the error of a stream that stops.
ghost use Rattle.std.specs.Prelude.{IsTrue};
ghost use Rattle.wtransport_proto.specs.Streams.{can_upgrade};

use std::alloc::Global;
use std::process::Abort;
use test_io::End;
use wtransport_proto::bytes::IoReadError as Fault;
use wtransport_proto::error::ErrorCode;
use wtransport_proto::ids::{SessionId, StreamId};
use wtransport_proto::session::{SessionRequest, UrlParseError};
use wtransport_proto::stream::IoReadError;
use wtransport_proto::stream::bilocal::{StreamBiLocalH3, StreamBiLocalQuic};
use wtransport_proto::stream::biremote::{StreamBiRemoteH3, StreamBiRemoteQuic};
use wtransport_proto::stream::session::StreamSession;
use wtransport_proto::varint::VarInt;

/// Returns the first `len` bytes.
pub(crate) fn front(bytes: &[u8], len: usize) -> &[u8] {
    bytes.get(..len).unwrap_or(&[])
}

/// Returns the bytes after the first `len`.
pub(crate) fn rest(bytes: &[u8], len: usize) -> &[u8] {
    bytes.get(len..).unwrap_or(&[])
}

/// Returns the error of a stream that ends after the first `len` bytes of a header or frame, if
/// these are too few.
pub(crate) fn stop_fault(len: usize, end: End) -> IoReadError {
    match (len, end) {
        (0, End::Fin) => IoReadError::IO(Fault::ImmediateFin),
        (_, End::Fin) => IoReadError::H3(ErrorCode::Frame),
        (_, End::Reset) => IoReadError::IO(Fault::Reset),
        (_, End::NotConnected) => IoReadError::IO(Fault::NotConnected),
    }
}

/// Returns the session ID with this stream ID.
pub(crate) fn session_of_stream<R: Abort>(rt: &R, id: u32) -> SessionId {
    let stream = StreamId::new(VarInt::from_u32(id));
    SessionId::try_from_session_stream(stream).expect(rt, "a session")
}

/// Returns the session ID 4.
pub(crate) fn session_4<R: Abort>(rt: &R) -> SessionId {
    session_of_stream(rt, 4)
}

/// Returns a bidirectional stream that the peer opened.
pub(crate) fn opened_there() -> StreamBiRemoteH3 {
    StreamBiRemoteQuic::accept_bi().upgrade()
}

/// Returns a bidirectional stream that this end opened.
pub(crate) fn opened_here() -> StreamBiLocalH3
    ensures { IsTrue (can_upgrade result) }
{
    StreamBiLocalQuic::open_bi().upgrade()
}

/// Returns the stream of a session that this end opened.
pub(crate) fn open_session(alloc: Global) -> Result<StreamSession, UrlParseError> {
    let request = SessionRequest::new(alloc, "https://example.com/a?b")?;
    Ok(opened_here().into_session(request))
}
