//! Errors of a connection and of its streams, with their codes and their scope (RFC 9114, section
//! 8; RFC 9204, section 6; RFC 9297, section 5.2).
ghost use Rattle.std.specs.Prelude.{◌≡◌};
ghost use Rattle.wtp_connection.specs.Fault.{code_of, scope_of};

use wtp_core::error::{Code, ErrorScope};
use wtp_frames::fault::Fault as StreamFault;

/// An error of a connection or of one of its streams, by the rule that the peer violated.
#[derive(Clone, Copy, Debug, PartialEq, Eq)]
pub enum Fault {
    /// An error of what a stream is for, of its frames or of its end.
    Stream(StreamFault),
    /// A setting is invalid (RFC 9114, sections 7.2.4 and 7.2.4.1), or less than what is remembered of
    /// a resumed session (section 7.2.4.2).
    Settings,
    /// A server that accepted 0-RTT has another capacity of its dynamic table than the one that is
    /// remembered of the resumed session, which was not 0 (RFC 9204, section 3.2.3).
    Capacity,
    /// The encoder stream of QPACK has an instruction that the own settings exclude (RFC 9204,
    /// sections 3.2.3 and 4.3).
    EncoderStream,
    /// The decoder stream of QPACK has an instruction about entries, of which none was inserted, or
    /// a number that is too large (RFC 9204, sections 4.1.1 and 4.4).
    DecoderStream,
    /// A datagram does not begin with a complete number, or its number is 2^60 or more (RFC 9297,
    /// section 2.1).
    Datagram,
}

impl Fault {
    /// Returns the error code.
    pub fn code(self) -> Code
        ensures { result ≡ code_of self }
    {
        match self {
            Fault::Stream(fault) => fault.code(),
            Fault::Settings => Code::H3_SETTINGS_ERROR,
            Fault::Capacity => Code::QPACK_DECODER_STREAM_ERROR,
            Fault::EncoderStream => Code::QPACK_ENCODER_STREAM_ERROR,
            Fault::DecoderStream => Code::QPACK_DECODER_STREAM_ERROR,
            Fault::Datagram => Code::H3_DATAGRAM_ERROR,
        }
    }

    /// Returns what the error ends: the connection, or the stream alone.
    pub fn scope(self) -> ErrorScope
        ensures { result ≡ scope_of self }
    {
        match self {
            Fault::Stream(fault) => fault.scope(),
            _ => ErrorScope::Connection,
        }
    }
}
