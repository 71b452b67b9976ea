//! Any error code of HTTP/3, by its number (RFC 9114, section 8.1).

ghost use Rattle.std.specs.Prelude.{◌≡◌, None, Some, MatchOption};
ghost use Rattle.wtp_core.specs.Codes.{code_name, code_description, code_scope};

use super::{ErrorCode, ErrorScope, h3_error_codes, qpack_error_codes, wt_error_codes};
use crate::varint::VarInt;
use std::fmt;
use std::marker::Model;
use vesgrauf_registry::codes::{Scope, find_code};

/// An error code of HTTP/3: any number, whether it is registered or not (RFC 9114, section 8.1).
///
/// The constants are the codes that are registered for HTTP/3, QPACK, HTTP Datagrams and
/// WebTransport over HTTP/3. [`ErrorCode`] has those of them that this library reports.
#[derive(Clone, Copy, PartialEq, Eq)]
pub struct Code {
    number: VarInt,
}

impl Model for Code {
    ghost use Rattle.std.specs.Prelude.{ℕ};

    ghost Value = { ℕ };

    ghost view = { λ c. c.number };

    ghost inverse = { λ n. record { number = n } };
}

impl Code {
    /// A datagram or a capsule cannot be parsed (RFC 9297, section 5.2).
    pub const H3_DATAGRAM_ERROR: Code = Code {
        number: h3_error_codes::H3_DATAGRAM_ERROR,
    };

    /// The connection or stream is closed without an error (RFC 9114, section 8.1).
    pub const H3_NO_ERROR: Code = Code {
        number: h3_error_codes::H3_NO_ERROR,
    };

    /// The peer violated the protocol; no more specific code is used (RFC 9114, section 8.1).
    pub const H3_GENERAL_PROTOCOL_ERROR: Code = Code {
        number: VarInt { value: 0x0101 },
    };

    /// An internal error occurred in the HTTP stack (RFC 9114, section 8.1).
    pub const H3_INTERNAL_ERROR: Code = Code {
        number: VarInt { value: 0x0102 },
    };

    /// The peer created a stream that is not accepted (RFC 9114, section 8.1).
    pub const H3_STREAM_CREATION_ERROR: Code = Code {
        number: h3_error_codes::H3_STREAM_CREATION_ERROR,
    };

    /// A stream that the connection requires was closed or reset (RFC 9114, section 8.1).
    pub const H3_CLOSED_CRITICAL_STREAM: Code = Code {
        number: h3_error_codes::H3_CLOSED_CRITICAL_STREAM,
    };

    /// A frame is not permitted in this state or on this stream (RFC 9114, section 8.1).
    pub const H3_FRAME_UNEXPECTED: Code = Code {
        number: h3_error_codes::H3_FRAME_UNEXPECTED,
    };

    /// A frame violates its layout or has an invalid size (RFC 9114, section 8.1).
    pub const H3_FRAME_ERROR: Code = Code {
        number: h3_error_codes::H3_FRAME_ERROR,
    };

    /// The peer may be generating excessive load (RFC 9114, section 8.1).
    pub const H3_EXCESSIVE_LOAD: Code = Code {
        number: h3_error_codes::H3_EXCESSIVE_LOAD,
    };

    /// An identifier was used incorrectly (RFC 9114, section 8.1).
    pub const H3_ID_ERROR: Code = Code {
        number: h3_error_codes::H3_ID_ERROR,
    };

    /// The payload of a SETTINGS frame has an error (RFC 9114, section 8.1).
    pub const H3_SETTINGS_ERROR: Code = Code {
        number: h3_error_codes::H3_SETTINGS_ERROR,
    };

    /// No SETTINGS frame was received at the start of the control stream (RFC 9114, section 8.1).
    pub const H3_MISSING_SETTINGS: Code = Code {
        number: h3_error_codes::H3_MISSING_SETTINGS,
    };

    /// The server rejected the request without processing it (RFC 9114, section 8.1).
    pub const H3_REQUEST_REJECTED: Code = Code {
        number: h3_error_codes::H3_REQUEST_REJECTED,
    };

    /// The request or its response is cancelled (RFC 9114, section 8.1).
    pub const H3_REQUEST_CANCELLED: Code = Code {
        number: VarInt { value: 0x010c },
    };

    /// The client's stream ended without a complete request (RFC 9114, section 8.1).
    pub const H3_REQUEST_INCOMPLETE: Code = Code {
        number: VarInt { value: 0x010d },
    };

    /// An HTTP message is malformed (RFC 9114, section 8.1).
    pub const H3_MESSAGE_ERROR: Code = Code {
        number: h3_error_codes::H3_MESSAGE_ERROR,
    };

    /// The TCP connection of a CONNECT request was reset or closed abnormally (RFC 9114, section
    /// 8.1).
    pub const H3_CONNECT_ERROR: Code = Code {
        number: VarInt { value: 0x010f },
    };

    /// The requested operation cannot be served over HTTP/3 (RFC 9114, section 8.1).
    pub const H3_VERSION_FALLBACK: Code = Code {
        number: VarInt { value: 0x0110 },
    };

    /// A field section cannot be decoded (RFC 9204, section 6).
    pub const QPACK_DECOMPRESSION_FAILED: Code = Code {
        number: qpack_error_codes::QPACK_DECOMPRESSION_FAILED,
    };

    /// An instruction on the encoder stream cannot be interpreted (RFC 9204, section 6).
    pub const QPACK_ENCODER_STREAM_ERROR: Code = Code {
        number: VarInt { value: 0x0201 },
    };

    /// An instruction on the decoder stream cannot be interpreted (RFC 9204, section 6).
    pub const QPACK_DECODER_STREAM_ERROR: Code = Code {
        number: VarInt { value: 0x0202 },
    };

    /// A WebTransport stream was rejected because its session was not known in time
    /// (draft-ietf-webtrans-http3-07).
    pub const WEBTRANSPORT_BUFFERED_STREAM_REJECTED: Code = Code {
        number: wt_error_codes::WEBTRANSPORT_BUFFERED_STREAM_REJECTED,
    };

    /// A WebTransport stream was closed because its session is gone
    /// (draft-ietf-webtrans-http3-07).
    pub const WEBTRANSPORT_SESSION_GONE: Code = Code {
        number: wt_error_codes::WEBTRANSPORT_SESSION_GONE,
    };

    /// A WebTransport session exceeded a limit of flow control (later drafts of WebTransport over
    /// HTTP/3).
    pub const WT_FLOW_CONTROL_ERROR: Code = Code {
        number: VarInt { value: 0x045d4487 },
    };

    /// A WebTransport session has no application protocol in common (later drafts of WebTransport
    /// over HTTP/3).
    pub const WT_ALPN_ERROR: Code = Code {
        number: VarInt { value: 0x0817b3dd },
    };

    /// A requirement of WebTransport, such as a setting of the peer, is not met (later drafts of
    /// WebTransport over HTTP/3).
    pub const WT_REQUIREMENTS_NOT_MET: Code = Code {
        number: VarInt { value: 0x212c0d48 },
    };

    /// Creates the code of this number.
    pub fn new(number: VarInt) -> Self
        ensures { result ≡ number }
    {
        Code { number }
    }

    /// Returns the number.
    pub fn number(self) -> VarInt
        ensures { result ≡ self }
    {
        self.number
    }

    /// Returns the name in the registry, such as `H3_FRAME_UNEXPECTED`, or `None` if the number is
    /// not registered.
    pub fn name(self) -> Option<&'static str>
        ensures { MatchOption result (code_name self ≡ None)
            (λ name. code_name self ≡ Some name.now) }
    {
        match find_code(self.number.into_inner()) {
            Some(row) => Some(row.name),
            None => None,
        }
    }

    /// Returns the description in the registry, one line without a full stop, or `None` if the
    /// number is not registered.
    pub fn description(self) -> Option<&'static str>
        ensures { MatchOption result (code_description self ≡ None)
            (λ text. code_description self ≡ Some text.now) }
    {
        match find_code(self.number.into_inner()) {
            Some(row) => Some(row.columns.description),
            None => None,
        }
    }

    /// Returns what the code ends.
    ///
    /// A code that an [`ErrorCode`] has ends what [`ErrorCode::scope`] returns. The others end what
    /// the rules that use them say: `H3_REQUEST_CANCELLED`, `H3_REQUEST_INCOMPLETE` and
    /// `H3_CONNECT_ERROR` a stream (RFC 9114, sections 4.1, 4.1.1 and 4.4),
    /// `QPACK_ENCODER_STREAM_ERROR` and `QPACK_DECODER_STREAM_ERROR` the connection (RFC 9204,
    /// sections 2.2.3, 3.2 and 4.4), `WT_FLOW_CONTROL_ERROR`, `WT_ALPN_ERROR` and
    /// `WT_REQUIREMENTS_NOT_MET` the stream of a session (later drafts of WebTransport over
    /// HTTP/3). No rule says what `H3_GENERAL_PROTOCOL_ERROR`, `H3_INTERNAL_ERROR` and
    /// `H3_VERSION_FALLBACK` end: `Either`. So does a number that is not registered, since an
    /// unknown code is treated as `H3_NO_ERROR` (RFC 9114, section 8).
    pub fn scope(self) -> ErrorScope
        ensures { result ≡ code_scope self }
    {
        match find_code(self.number.into_inner()) {
            Some(row) => match row.columns.scope {
                Scope::Stream => ErrorScope::Stream,
                Scope::Connection => ErrorScope::Connection,
                Scope::Either => ErrorScope::Either,
            },
            None => ErrorScope::Either,
        }
    }
}

impl From<ErrorCode> for Code {
    ghost use Rattle.wtp_core.specs.ErrorCodes.{code_number};

    ghost from_gives = { λ error code. code ≡ code_number error };

    /// Returns the code with the number of `error`.
    fn from(error: ErrorCode) -> Self {
        Code {
            number: error.to_code(),
        }
    }
}

impl fmt::Display for Code {
    ghost use Rattle.std.specs.Prelude.{Some};
    ghost use Rattle.wtp_core.specs.Codes.{code_text, code_name};

    ghost output = { λ code. Some (code_text code (code_name code)) };

    /// Prints the name; of a number that is not registered the number, as `0x21`.
    fn fmt<W: fmt::Write>(&self, f: &mut fmt::Formatter<W>) -> fmt::Result {
        let number = self.number.into_inner();
        match self.name() {
            Some(name) => f.write_str(name),
            None => write!(f, "0x{number:x}"),
        }
    }
}

impl fmt::Debug for Code {
    ghost use Rattle.std.specs.Prelude.{Some};
    ghost use Rattle.wtp_core.specs.Codes.{code_debug_text, code_name};

    ghost debug_output = { λ code. Some (code_debug_text code (code_name code)) };

    /// Prints the name and the number, as `H3_NO_ERROR (0x100)`; of a number that is not registered
    /// the number, as `0x21`.
    fn fmt<W: fmt::Write>(&self, f: &mut fmt::Formatter<W>) -> fmt::Result {
        let number = self.number.into_inner();
        match self.name() {
            Some(name) => write!(f, "{name} (0x{number:x})"),
            None => write!(f, "0x{number:x}"),
        }
    }
}

// The registered numbers.
const _: () = prove!(Code::H3_DATAGRAM_ERROR.number.value == 0x33);

const _: () = prove!(Code::H3_NO_ERROR.number.value == 0x0100);

const _: () = prove!(Code::H3_GENERAL_PROTOCOL_ERROR.number.value == 0x0101);

const _: () = prove!(Code::H3_INTERNAL_ERROR.number.value == 0x0102);

const _: () = prove!(Code::H3_STREAM_CREATION_ERROR.number.value == 0x0103);

const _: () = prove!(Code::H3_CLOSED_CRITICAL_STREAM.number.value == 0x0104);

const _: () = prove!(Code::H3_FRAME_UNEXPECTED.number.value == 0x0105);

const _: () = prove!(Code::H3_FRAME_ERROR.number.value == 0x0106);

const _: () = prove!(Code::H3_EXCESSIVE_LOAD.number.value == 0x0107);

const _: () = prove!(Code::H3_ID_ERROR.number.value == 0x0108);

const _: () = prove!(Code::H3_SETTINGS_ERROR.number.value == 0x0109);

const _: () = prove!(Code::H3_MISSING_SETTINGS.number.value == 0x010a);

const _: () = prove!(Code::H3_REQUEST_REJECTED.number.value == 0x010b);

const _: () = prove!(Code::H3_REQUEST_CANCELLED.number.value == 0x010c);

const _: () = prove!(Code::H3_REQUEST_INCOMPLETE.number.value == 0x010d);

const _: () = prove!(Code::H3_MESSAGE_ERROR.number.value == 0x010e);

const _: () = prove!(Code::H3_CONNECT_ERROR.number.value == 0x010f);

const _: () = prove!(Code::H3_VERSION_FALLBACK.number.value == 0x0110);

const _: () = prove!(Code::QPACK_DECOMPRESSION_FAILED.number.value == 0x0200);

const _: () = prove!(Code::QPACK_ENCODER_STREAM_ERROR.number.value == 0x0201);

const _: () = prove!(Code::QPACK_DECODER_STREAM_ERROR.number.value == 0x0202);

const _: () = prove!(Code::WEBTRANSPORT_BUFFERED_STREAM_REJECTED.number.value == 0x3994bd84);

const _: () = prove!(Code::WEBTRANSPORT_SESSION_GONE.number.value == 0x170d7b68);

const _: () = prove!(Code::WT_FLOW_CONTROL_ERROR.number.value == 0x045d4487);

const _: () = prove!(Code::WT_ALPN_ERROR.number.value == 0x0817b3dd);

const _: () = prove!(Code::WT_REQUIREMENTS_NOT_MET.number.value == 0x212c0d48);
