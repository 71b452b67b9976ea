//! Why a source gave no more bytes, and a sink took no more.
use std::io;
use std::io::ErrorKind;

/// Why a source gave no more bytes.
///
/// It describes the source, not the bytes. `frame::IoReadError`, `stream_header::IoReadError` and
/// `stream::IoReadError` add the parse errors of a frame, a header and a stream.
#[derive(Debug, Drop, PartialEq, Eq, thiserror::Error)]
pub enum IoReadError {
    /// The source ended before any byte was taken.
    #[error("read operation failed because EOF reached on first byte")]
    ImmediateFin,
    /// The source ended after bytes were taken.
    #[error("read operation failed because EOF reached after first byte")]
    UnexpectedFin,
    /// The source was reset.
    #[error("read operation failed because interrupted")]
    Reset,
    /// The source is not connected.
    #[error("read operation failed because not connected")]
    NotConnected,
}

/// Why a sink took no more bytes.
#[derive(Debug, Drop, PartialEq, Eq, thiserror::Error)]
pub enum IoWriteError {
    /// The peer accepts no more bytes.
    #[error("write operation failed because operation has been stopped")]
    Stopped,
    /// The sink is not connected.
    #[error("write operation failed because not connected")]
    NotConnected,
}

impl From<io::Error> for IoReadError {
    ghost use Rattle.std.specs.Prelude.{◌≡◌};
    ghost use Rattle.std.specs.IoError.{error_kind};
    ghost use Rattle.wtp_core.specs.Polled.{read_fault};

    ghost from_gives = { λ error fault. fault ≡ read_fault (error_kind error) };

    /// Converts `ConnectionReset` to `Reset`, and every other kind to `NotConnected`.
    fn from(error: io::Error) -> Self {
        match error.kind() {
            ErrorKind::ConnectionReset => IoReadError::Reset,
            _ => IoReadError::NotConnected,
        }
    }
}

impl From<io::Error> for IoWriteError {
    ghost use Rattle.std.specs.Prelude.{◌≡◌};
    ghost use Rattle.std.specs.IoError.{error_kind};
    ghost use Rattle.wtp_core.specs.Polled.{write_fault};

    ghost from_gives = { λ error fault. fault ≡ write_fault (error_kind error) };

    /// Converts `ConnectionReset` to `Stopped`, and every other kind to `NotConnected`.
    fn from(error: io::Error) -> Self {
        match error.kind() {
            ErrorKind::ConnectionReset => IoWriteError::Stopped,
            _ => IoWriteError::NotConnected,
        }
    }
}
