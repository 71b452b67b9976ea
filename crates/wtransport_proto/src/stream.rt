//! Streams of QUIC, HTTP/3 and WebTransport, typed by their kind and state.
//!
//! A stream stores no bytes. Its calls take a reader or a writer, and check what may be received on
//! the stream.
//!
//! A server accepts a bidirectional stream that its peer opened with
//! [`biremote::StreamBiRemoteH3::accept_async`], which distinguishes a stream of a session from
//! that of a request. It then reads further frames of the request one by one, or with [`drive`].
ghost use Rattle.std.specs.Prelude.{◌≡◌, is_some};
ghost use Rattle.wtp_wire.specs.Header.{header_kind, header_session, WebTransportHeader};
ghost use Rattle.wtp_wire.specs.StreamKind.{has_session};
ghost use Rattle.wtransport_proto.specs.Streams.{header_of, session_of};

use crate::stream::types::{H3, WT};
use wtp_core::ids::SessionId;
use wtp_wire::stream_header::{StreamHeader, StreamKind};

mod accepting;
pub mod bilocal;
pub mod biremote;
mod cursor;
mod driving;
mod error;
mod poll;
mod reading;
pub mod session;
pub mod types;
pub mod unilocal;
pub mod uniremote;
mod upgrading;

pub use accepting::{BiAccepted, BiAccepting, UniAccepting};
pub use cursor::{CursorStep, FrameCursor, FrameSpan};
pub use driving::{Driven, ReadsFrames, drive};
pub use error::IoReadError;
pub use upgrading::{BiUpgrading, UniUpgrading};
pub use wtp_core::bytes::IoWriteError;
pub use wtp_wire::rules::{StreamRole, fault_of};

/// A stream of kind `K` in state `S` (see `types`).
#[derive(Debug, Drop)]
pub struct Stream<K, S> {
    kind: K,
    stage: S,
}

impl<K> Stream<K, H3<StreamHeader>> {
    /// Returns the kind of unidirectional stream.
    pub fn kind(&self) -> StreamKind
        ensures { result ≡ header_kind (header_of self.now) }
    {
        self.stage.header.kind()
    }

    /// Returns the session ID of a WebTransport stream, and `None` for every other kind.
    pub fn session_id(&self) -> Option<SessionId>
        ensures session { result ≡ header_session (header_of self.now) }
        ensures opens { is_some result ≡ has_session (header_kind (header_of self.now)) }
    {
        self.stage.header.session_id()
    }

    /// Converts to a stream of the session. Requires that `kind` returns WebTransport.
    pub fn upgrade(self) -> Stream<K, WT>
        requires { header_kind (header_of self) ≡ StreamKind.WebTransport }
        ensures { header_of self ≡ WebTransportHeader (session_of result) }
    {
        let Some(session_id) = self.stage.header.session_id() else {
            unreachable!()
        };
        Stream {
            kind: self.kind,
            stage: WT { session_id },
        }
    }
}

impl<K> Stream<K, WT> {
    /// Returns the session ID.
    pub fn session_id(&self) -> SessionId
        ensures { result ≡ session_of self.now }
    {
        self.stage.session_id
    }
}
