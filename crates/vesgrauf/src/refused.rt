//! Why a call is refused.
use std::alloc::{AllocError, AllocFailed};
use thiserror::Error;
use vesgrauf_queue::error::{NotQueued, NotShown};
use vesgrauf_stream::error::NotSent as Kept;
use wtp_sending::error::SendError;

/// The reason why a call changed nothing.
#[derive(Debug, Drop, Clone, Copy, PartialEq, Eq, Error)]
pub enum Refused {
    /// The connection is over.
    #[error("the connection is over")]
    Closed,
    /// There is no such stream, or it has no own half.
    #[error("there is no such stream")]
    NoStream,
    /// The own half was finished or reset.
    #[error("the own half of the stream is over")]
    Over,
    /// As many bytes are queued as `send_buffer` says: a `Writable` follows. Or as many own streams wait as
    /// `max_unopened` says: an `Openable` follows.
    #[error("there is no room for now")]
    Full,
    /// An application's code is for a stream of a session, and a code of HTTP/3 for any other.
    #[error("the code is of another kind of stream")]
    WrongCode,
    /// It is a call of the other side.
    #[error("this is a call of the other side")]
    WrongSide,
    /// A server's GOAWAY came: a new request goes to another connection (RFC 9114, section 5.2).
    #[error("the server processes no new request")]
    GoAway,
    /// SETTINGS of the peer did not come yet: wait for `Ready`.
    #[error("SETTINGS of the peer did not come yet")]
    NotReady,
    /// The session is not open yet, or there is none with this ID.
    #[error("the session is not open")]
    NotOpen,
    /// The session is over, or was refused.
    #[error("the session is over")]
    SessionGone,
    /// The peer allows no more sessions at once.
    #[error("the peer allows no more sessions")]
    TooManySessions,
    /// There are no more stream IDs.
    #[error("there are no more stream IDs")]
    NoMoreIds,
    /// It is larger than the peer or QUIC takes.
    #[error("it is too large")]
    TooLarge,
    /// QUIC has put fewer bytes, or opens another stream.
    #[error("QUIC was not asked to do that")]
    NotAsked,
    /// It may not be sent now, or would be malformed.
    #[error("{0}")]
    Send(SendError),
    /// Memory was refused.
    #[error("no memory")]
    Memory,
}

/// Bytes that are not sent are given back.
#[derive(Debug, Drop)]
pub struct NotSent {
    /// Why they are not.
    pub why: Refused,
    /// The bytes.
    pub bytes: Vec<u8>,
}

impl Refused {
    ghost use Rattle.std.specs.Prelude.{◌≡◌, if◌then◌else◌, None, Some, Ok, Err, MatchResult};
    ghost use Rattle.vesgrauf.specs.State.{is_gone};

    /// Returns whether what the call is about is over: the connection, the session, the stream or its own half. The same
    /// call is refused ever after, unless it names a stream that the peer is still to open.
    pub fn is_gone(self) -> bool
        ensures { result ≡ is_gone self }
    {
        matches!(
            self,
            Refused::Closed | Refused::NoStream | Refused::Over | Refused::SessionGone
        )
    }

    /// Returns what a call returned, or `None` if what it is about is over: the peer may end that at any time.
    ///
    /// # Errors
    ///
    /// Any other reason for which the call is refused.
    pub fn unless_gone<T>(answer: Result<T, Refused>) -> Result<Option<T>, Refused>
        ensures { MatchResult answer (λ x. result ≡ Ok (Some x))
            (λ e. result ≡ (if is_gone e then Ok None else Err e)) }
    {
        match answer {
            Ok(value) => Ok(Some(value)),
            Err(refused) => {
                if refused.is_gone() {
                    Ok(None)
                } else {
                    Err(refused)
                }
            }
        }
    }
}

impl From<AllocError> for Refused {
    ghost use Rattle.std.specs.Prelude.{◌≡◌};
    ghost use Rattle.vesgrauf.specs.declared.refused.Refused.TheVariants.{Memory};

    ghost from_gives = { λ _ e. e ≡ Memory };

    fn from(_error: AllocError) -> Refused {
        Refused::Memory
    }
}

impl<T: Drop> From<AllocFailed<T>> for Refused {
    fn from(_error: AllocFailed<T>) -> Refused {
        Refused::Memory
    }
}

impl From<NotShown> for Refused {
    ghost use Rattle.std.specs.Prelude.{◌≡◌};
    ghost use Rattle.vesgrauf.specs.declared.refused.Refused.TheVariants.{NotAsked};

    ghost from_gives = { λ _ e. e ≡ NotAsked };

    fn from(_error: NotShown) -> Refused {
        Refused::NotAsked
    }
}

impl From<NotQueued> for Refused {
    fn from(error: NotQueued) -> Refused {
        match error {
            NotQueued::Over => Refused::Over,
            NotQueued::TooLong => Refused::TooLarge,
            NotQueued::Memory => Refused::Memory,
        }
    }
}

impl From<Kept> for Refused {
    ghost use Rattle.std.specs.Prelude.{◌≡◌};
    ghost use Rattle.vesgrauf.specs.State.{refused_for};

    ghost from_gives = { λ error e. e ≡ refused_for error };

    fn from(error: Kept) -> Refused {
        match error {
            Kept::None => Refused::NoStream,
            Kept::Over => Refused::Over,
            Kept::TooLong => Refused::TooLarge,
            Kept::Send(SendError::Memory) => Refused::Memory,
            Kept::Send(error) => Refused::Send(error),
        }
    }
}
