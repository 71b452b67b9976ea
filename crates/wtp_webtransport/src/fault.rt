//! Errors of a connection and of its streams, with their codes and their scope (RFC 9114, section
//! 8).
ghost use Rattle.std.specs.Prelude.{◌≡◌};
ghost use Rattle.wtp_webtransport.specs.Fault.{code_of, scope_of};

use wtp_connection::fault::Fault as StreamsFault;
use wtp_core::error::{Code, ErrorScope};
use wtp_dynamic::error::{EncoderStreamError, SectionError};
use wtp_qpack::qpack::DecodingError;

/// An error of a connection or of one of its streams, by the rule that the peer violated.
#[derive(Clone, Copy, Debug, PartialEq, Eq)]
pub enum Fault {
    /// An error of what a stream is for, of its frames, of its end or of the settings.
    Streams(StreamsFault),
    /// A field section cannot be decoded (RFC 9204, section 6).
    Section(DecodingError),
    /// The prefix of a field section refers to a dynamic table, and none is allowed: its Required
    /// Insert Count is not 0, or its Sign bit is 1 (RFC 9204, sections 4.5.1.1 and 4.5.1.2).
    SectionPrefix,
    /// A field section that refers to the dynamic table cannot be decoded (RFC 9204, section 6), or has to
    /// wait where as many streams wait as may (section 2.1.2).
    TableSection(SectionError),
    /// An instruction of the encoder stream is wrong (RFC 9204, section 6), or there was no memory for it:
    /// then the code is H3_INTERNAL_ERROR.
    Instructions(EncoderStreamError),
    /// A capsule of a session is invalid, cut off by the end of the stream, or follows the one that
    /// closes the session (RFC 9297, section 3.3; draft-ietf-webtrans-http3-02, section 5).
    Capsule,
    /// This endpoint does not process a request, after its GOAWAY (RFC 9114, sections 4.1.1 and 5.2).
    /// That is no error of the peer.
    Rejected,
}

impl Fault {
    /// Returns the error code.
    pub fn code(self) -> Code
        ensures { result ≡ code_of self }
    {
        match self {
            Fault::Streams(fault) => fault.code(),
            Fault::Section(_) => Code::QPACK_DECOMPRESSION_FAILED,
            Fault::SectionPrefix => Code::QPACK_DECOMPRESSION_FAILED,
            Fault::TableSection(_) => Code::QPACK_DECOMPRESSION_FAILED,
            Fault::Instructions(EncoderStreamError::Memory) => Code::H3_INTERNAL_ERROR,
            Fault::Instructions(_) => Code::QPACK_ENCODER_STREAM_ERROR,
            Fault::Capsule => Code::H3_MESSAGE_ERROR,
            Fault::Rejected => Code::H3_REQUEST_REJECTED,
        }
    }

    /// Returns what the error ends: the connection, or the stream alone.
    pub fn scope(self) -> ErrorScope
        ensures { result ≡ scope_of self }
    {
        match self {
            Fault::Streams(fault) => fault.scope(),
            Fault::Capsule | Fault::Rejected => ErrorScope::Stream,
            _ => ErrorScope::Connection,
        }
    }
}
