//! Why no frame was read from a stream.
ghost use Rattle.std.specs.Prelude.{◌≡◌};
ghost use Rattle.wtransport_proto.specs.StreamPolling.{stream_fault};

use wtp_core::bytes;
use wtp_core::error::ErrorCode;

/// The reason no frame, or no header, was read from a stream.
///
/// It has the error code of a fault by the stream's rules, with which the stream or the connection
/// is closed: `frame::IoReadError` and `stream_header::IoReadError` have the fault of one frame or
/// header by name, and `bytes::IoReadError` the fault of the source alone.
#[derive(Debug, Drop, PartialEq, Eq, thiserror::Error)]
pub enum IoReadError {
    /// The bytes violate a rule of HTTP/3; an end inside a frame does. An end inside the header of a
    /// unidirectional stream has the same code, and must be tolerated (RFC 9114, section 6.2).
    #[error("{0}")]
    H3(ErrorCode),
    /// The source gave no more bytes.
    #[error("{0}")]
    IO(bytes::IoReadError),
}

/// Converts a fault of the source: an end inside a frame is a fault of the frame.
pub(crate) fn stream_fault(fault: bytes::IoReadError) -> IoReadError
    ensures { result ≡ stream_fault fault }
{
    match fault {
        bytes::IoReadError::UnexpectedFin => IoReadError::H3(ErrorCode::Frame),
        fault => IoReadError::IO(fault),
    }
}
