//! Why nothing is sent.
use thiserror::Error;
use vesgrauf_queue::error::NotQueued;
use wtp_sending::error::SendError;

/// Why a call of a [`Writing`](crate::writing::Writing) sends nothing. The half and its queue are unchanged then.
#[derive(Clone, Copy, Debug, Drop, PartialEq, Eq, Error)]
pub enum NotSent {
    /// There is no own half, or no message was asked for on it.
    #[error("there is no own half, or no message was asked for on it")]
    None,
    /// The half was finished or reset.
    #[error("the half was finished or reset")]
    Over,
    /// The stream would have more than 2^62 - 1 bytes (RFC 9000, section 19.8).
    #[error("the stream would be too long")]
    TooLong,
    /// This may not be sent, or memory is refused.
    #[error("{0}")]
    Send(SendError),
}

/// Bytes that are not queued are given back.
#[derive(Debug, Drop)]
pub struct NotGiven {
    /// Why they are not.
    pub why: NotSent,
    /// The bytes.
    pub bytes: Vec<u8>,
}

impl From<SendError> for NotSent {
    ghost use Rattle.std.specs.Prelude.{◌≡◌};
    ghost use Rattle.vesgrauf_stream.specs.declared.error.NotSent.TheVariants.{Send};

    ghost from_gives = { λ error e. e ≡ Send error };

    fn from(error: SendError) -> NotSent {
        NotSent::Send(error)
    }
}

impl From<NotQueued> for NotSent {
    ghost use Rattle.std.specs.Prelude.{◌≡◌};
    ghost use Rattle.vesgrauf_stream.specs.Errors.{of_queue};

    ghost from_gives = { λ error e. e ≡ of_queue error };

    fn from(error: NotQueued) -> NotSent {
        match error {
            NotQueued::Over => NotSent::Over,
            NotQueued::TooLong => NotSent::TooLong,
            NotQueued::Memory => NotSent::Send(SendError::Memory),
        }
    }
}
