//! What may be sent on one stream.
use crate::error::NotSent;
use wtp_messages::response::Asked;
use wtp_sending::error::SendError;
use wtp_sending::message::Sending;

/// What may be sent on one stream.
#[derive(Clone, Copy)]
pub(crate) enum Half {
    /// Nothing: a unidirectional stream of the peer.
    None,
    /// Nothing yet: a bidirectional stream on which no message began.
    Idle,
    /// At a server, a response to a request that asks for this.
    Asked(Asked),
    /// The rest of a message of which HEADERS were sent.
    Message(Sending),
    /// Bytes as they are: a stream of a session.
    Raw,
}

impl Half {
    ghost use Rattle.std.specs.Prelude.{◌≡◌};
    ghost use Rattle.vesgrauf_stream.specs.Writing.{message_of, is_idle as is_idle_is, is_raw as is_raw_is};

    // Returns whether there is none, or no message began.
    pub(crate) fn is_idle(&self) -> bool
        ensures { result ≡ is_idle_is self.now }
    {
        matches!(self, Half::None | Half::Idle)
    }

    // Returns whether it has no messages.
    pub(crate) fn is_raw(&self) -> bool
        ensures { result ≡ is_raw_is self.now }
    {
        matches!(self, Half::Raw)
    }

    // Returns the message, or why there is none.
    pub(crate) fn message(&self) -> Result<Sending, NotSent>
        ensures { result ≡ message_of self.now }
    {
        match self {
            Half::None | Half::Idle => Err(NotSent::None),
            Half::Asked(_) | Half::Raw => Err(NotSent::Send(SendError::Unexpected)),
            Half::Message(sending) => Ok(*sending),
        }
    }
}
