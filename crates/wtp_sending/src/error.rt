//! Why something is not sent.
use thiserror::Error;
use wtp_core::bytes::PutError;
use wtp_messages::malformed::Malformed;

/// The reason why a call wrote nothing and changed nothing.
#[derive(Debug, Drop, Clone, Copy, PartialEq, Eq, Error)]
pub enum SendError {
    /// This may not be sent now (RFC 9114, sections 4.1 and 4.4).
    #[error("this may not be sent now")]
    Unexpected,
    /// Bytes of the last DATA frame are still to be sent (RFC 9114, section 7.1).
    #[error("bytes of a DATA frame are missing")]
    DataMissing,
    /// There are more bytes than the DATA frame has left (RFC 9114, section 7.1).
    #[error("there are more bytes than the DATA frame has left")]
    DataExceeded,
    /// A DATA frame without bytes says nothing.
    #[error("a DATA frame would have no bytes")]
    EmptyData,
    /// A section is larger than the peer accepts (RFC 9114, section 4.2.2), or the payload of a
    /// frame would have 2^62 bytes or more.
    #[error("it is too large")]
    TooLarge,
    /// There were 64 interim responses, as many as this library reads.
    #[error("there are too many interim responses")]
    TooManyInterim,
    /// The ID of a GOAWAY to a client is not that of a request (RFC 9114, section 7.2.6).
    #[error("the ID is not that of a request")]
    InvalidId,
    /// The ID of a GOAWAY is above that of the last one (RFC 9114, section 5.2).
    #[error("the ID is above the last one")]
    IdRises,
    /// The peer does not support what a request asks for (RFC 9220, section 3; WebTransport).
    #[error("the peer does not support this")]
    Unsupported,
    /// The message would be malformed: it breaks this rule (RFC 9114, section 4.1.2).
    #[error("{0}")]
    Malformed(Malformed),
    /// The writer has too little space left.
    #[error("end of buffer has been reached")]
    EndOfBuffer,
    /// Memory allocation failed.
    #[error("no memory")]
    Memory,
}

impl From<PutError> for SendError {
    ghost use Rattle.std.specs.Prelude.{◌≡◌};
    ghost use Rattle.wtp_sending.specs.Writing.{error_of};

    ghost from_gives = { λ put e. e ≡ error_of put };

    fn from(error: PutError) -> SendError {
        match error {
            PutError::EndOfBuffer => SendError::EndOfBuffer,
            PutError::Memory => SendError::Memory,
        }
    }
}

impl From<Malformed> for SendError {
    ghost use Rattle.std.specs.Prelude.{◌≡◌};
    ghost use Rattle.wtp_sending.specs.declared.error.SendError.TheVariants.{Malformed};

    ghost from_gives = { λ rule e. e ≡ Malformed rule };

    fn from(rule: Malformed) -> SendError {
        SendError::Malformed(rule)
    }
}
