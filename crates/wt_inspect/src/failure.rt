//! Errors of the program.
ghost use Rattle.std.specs.Prelude.{◌≡◌};
ghost use Rattle.wt_inspect.specs.Statuses.{failure_status, is_silent};

use std::alloc::AllocError;
use wt_inspect_connection::list::ListError;
use wtp_dynamic::error::EncoderStreamError;

/// Why the program failed.
#[derive(Clone, Copy, Debug, thiserror::Error)]
pub enum Failure {
    /// The arguments could not be read or are not UTF-8.
    #[error("an argument is not UTF-8; a file with such a name can be given as standard input")]
    Arguments,
    /// A file could not be read, or a text is no list of a connection, as a message has said.
    #[error("the file cannot be read")]
    Named,
    /// Reading failed.
    #[error("the input cannot be read: is it a folder? KIND connection takes one")]
    Input,
    /// The input is too long.
    #[error("the input is longer than 64 MiB (67108864 bytes)")]
    TooLong,
    /// The input is not hexadecimal text.
    #[error("the input is not hexadecimal text: pairs of digits, blanks, line ends and 0x alone")]
    NotHex,
    /// The list of a connection is not UTF-8.
    #[error("the list is not UTF-8; it is a text of lines such as '0 client request.bin'")]
    NotText,
    /// The arguments have what is not for a connection.
    #[error("--encoder is not for a connection, whose list names the encoder streams")]
    NotOfConnection,
    /// The encoder stream has a fault.
    #[error("the encoder stream has a fault: {0} (QPACK_ENCODER_STREAM_ERROR, 0x201)")]
    Encoder(EncoderStreamError),
    /// Writing failed.
    #[error("the output cannot be written")]
    Output,
    /// Nobody reads the output.
    #[error("the output is closed")]
    Closed,
    /// Allocation failed.
    #[error("out of memory")]
    Memory,
}

impl Failure {
    /// Returns the exit status.
    pub fn status(self) -> u8
        ensures { result ≡ failure_status self }
    {
        match self {
            Failure::Arguments | Failure::NotOfConnection => 1,
            Failure::Memory => 4,
            Failure::Closed => 141,
            _ => 3,
        }
    }

    /// Returns whether nothing is left to say.
    pub fn is_silent(self) -> bool
        ensures { result ≡ is_silent self }
    {
        match self {
            Failure::Named | Failure::Closed => true,
            _ => false,
        }
    }
}

impl From<EncoderStreamError> for Failure {
    ghost use Rattle.wt_inspect.specs.Statuses.{encoder_failure};

    ghost from_gives = { λ fault failure. failure ≡ encoder_failure fault };

    fn from(fault: EncoderStreamError) -> Self {
        match fault {
            EncoderStreamError::Memory => Failure::Memory,
            _ => Failure::Encoder(fault),
        }
    }
}

impl From<ListError<'_>> for Failure {
    ghost use Rattle.wt_inspect.specs.Statuses.{list_failure};

    ghost from_gives = { λ error failure. failure ≡ list_failure error };

    fn from(error: ListError<'_>) -> Self {
        match error {
            ListError::Memory => Failure::Memory,
            _ => Failure::Named,
        }
    }
}

impl From<AllocError> for Failure {
    ghost use Rattle.wt_inspect.specs.declared.failure.Failure.TheVariants.{Memory};

    ghost from_gives = { λ _ failure. failure ≡ Memory };

    fn from(_: AllocError) -> Self {
        Failure::Memory
    }
}
