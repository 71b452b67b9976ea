//! Error codes of HTTP/3 (RFC 9114, section 8.1), QPACK and WebTransport.
ghost use Rattle.std.specs.Prelude.{◌≡◌};

pub mod application_codes;
mod code;
mod number;
mod scope;

use crate::varint::VarInt;
pub use code::Code;
pub use number::UnknownErrorCode;
pub use scope::ErrorScope;
use std::fmt;

/// HTTP/3 error codes.
pub mod h3_error_codes {
    use crate::varint::VarInt;

    /// A datagram or a capsule cannot be parsed (RFC 9297, section 5.2).
    pub const H3_DATAGRAM_ERROR: VarInt = VarInt { value: 0x33 };

    /// No error; the connection or stream is closed without one.
    pub const H3_NO_ERROR: VarInt = VarInt { value: 0x0100 };

    /// The peer created a stream that is not accepted.
    pub const H3_STREAM_CREATION_ERROR: VarInt = VarInt { value: 0x0103 };

    /// A stream that the connection requires was closed.
    pub const H3_CLOSED_CRITICAL_STREAM: VarInt = VarInt { value: 0x0104 };

    /// A frame was received that is not permitted in this state or on this stream.
    pub const H3_FRAME_UNEXPECTED: VarInt = VarInt { value: 0x0105 };

    /// A frame violates its layout or has an invalid size.
    pub const H3_FRAME_ERROR: VarInt = VarInt { value: 0x0106 };

    /// The peer may be generating excessive load.
    pub const H3_EXCESSIVE_LOAD: VarInt = VarInt { value: 0x0107 };

    /// An identifier was used incorrectly.
    pub const H3_ID_ERROR: VarInt = VarInt { value: 0x0108 };

    /// The payload of a SETTINGS frame has an error.
    pub const H3_SETTINGS_ERROR: VarInt = VarInt { value: 0x0109 };

    /// No SETTINGS frame was received at the start of the control stream.
    pub const H3_MISSING_SETTINGS: VarInt = VarInt { value: 0x010a };

    /// The server rejected the request without processing it.
    pub const H3_REQUEST_REJECTED: VarInt = VarInt { value: 0x010b };

    /// An HTTP message is malformed.
    pub const H3_MESSAGE_ERROR: VarInt = VarInt { value: 0x010e };
}

/// The QPACK error code.
pub mod qpack_error_codes {
    use crate::varint::VarInt;

    /// A field section cannot be decoded (RFC 9204, section 6).
    pub const QPACK_DECOMPRESSION_FAILED: VarInt = VarInt { value: 0x0200 };
}

/// WebTransport error codes (draft-ietf-webtrans-http3-07, "HTTP/3 Error Code Registration").
pub mod wt_error_codes {
    use crate::varint::VarInt;

    /// A WebTransport stream was rejected because its session was not known in time.
    pub const WEBTRANSPORT_BUFFERED_STREAM_REJECTED: VarInt = VarInt { value: 0x3994bd84 };

    /// A WebTransport stream was closed because its session is gone.
    pub const WEBTRANSPORT_SESSION_GONE: VarInt = VarInt { value: 0x170d7b68 };
}

/// An error code for closing a stream or a connection.
#[derive(Clone, Copy, PartialEq, Eq)]
pub enum ErrorCode {
    /// A datagram or a capsule cannot be parsed (RFC 9297, section 5.2).
    Datagram,
    /// No error; the connection or stream is closed without one.
    NoError,
    /// The peer created a stream that is not accepted.
    StreamCreation,
    /// A stream that the connection requires was closed.
    ClosedCriticalStream,
    /// A frame was received that is not permitted in this state or on this stream.
    FrameUnexpected,
    /// A frame violates its layout or has an invalid size.
    Frame,
    /// The peer may be generating excessive load.
    ExcessiveLoad,
    /// An identifier was used incorrectly.
    Id,
    /// The payload of a SETTINGS frame has an error.
    Settings,
    /// No SETTINGS frame was received at the start of the control stream.
    MissingSettings,
    /// The server rejected the request without processing it.
    RequestRejected,
    /// An HTTP message is malformed.
    Message,
    /// A field section cannot be decoded (RFC 9204, section 6).
    Decompression,
    /// A WebTransport stream was rejected because its session was not known in time.
    BufferedStreamRejected,
    /// A WebTransport stream was closed because its session is gone.
    SessionGone,
}

impl ErrorCode {
    ghost use Rattle.wtp_core.specs.ErrorCodes.{code_number, name_of};

    /// Returns the number on the wire.
    pub fn to_code(self) -> VarInt
        ensures { result ≡ code_number self }
    {
        match self {
            ErrorCode::Datagram => h3_error_codes::H3_DATAGRAM_ERROR,
            ErrorCode::NoError => h3_error_codes::H3_NO_ERROR,
            ErrorCode::StreamCreation => h3_error_codes::H3_STREAM_CREATION_ERROR,
            ErrorCode::ClosedCriticalStream => h3_error_codes::H3_CLOSED_CRITICAL_STREAM,
            ErrorCode::FrameUnexpected => h3_error_codes::H3_FRAME_UNEXPECTED,
            ErrorCode::Frame => h3_error_codes::H3_FRAME_ERROR,
            ErrorCode::ExcessiveLoad => h3_error_codes::H3_EXCESSIVE_LOAD,
            ErrorCode::Id => h3_error_codes::H3_ID_ERROR,
            ErrorCode::Settings => h3_error_codes::H3_SETTINGS_ERROR,
            ErrorCode::MissingSettings => h3_error_codes::H3_MISSING_SETTINGS,
            ErrorCode::RequestRejected => h3_error_codes::H3_REQUEST_REJECTED,
            ErrorCode::Message => h3_error_codes::H3_MESSAGE_ERROR,
            ErrorCode::Decompression => qpack_error_codes::QPACK_DECOMPRESSION_FAILED,
            ErrorCode::BufferedStreamRejected =>
                wt_error_codes::WEBTRANSPORT_BUFFERED_STREAM_REJECTED,
            ErrorCode::SessionGone => wt_error_codes::WEBTRANSPORT_SESSION_GONE,
        }
    }

    /// Returns the printed name.
    pub fn name(self) -> &'static str
        ensures { result.now ≡ name_of self }
    {
        match self {
            ErrorCode::Datagram => "DatagramError",
            ErrorCode::NoError => "NoError",
            ErrorCode::StreamCreation => "StreamCreationError",
            ErrorCode::ClosedCriticalStream => "ClosedCriticalStreamError",
            ErrorCode::FrameUnexpected => "FrameUnexpectedError",
            ErrorCode::Frame => "FrameError",
            ErrorCode::ExcessiveLoad => "ExcessiveLoad",
            ErrorCode::Id => "IdError",
            ErrorCode::Settings => "SettingsError",
            ErrorCode::MissingSettings => "MissingSettingsError",
            ErrorCode::RequestRejected => "RequestRejectedError",
            ErrorCode::Message => "MessageError",
            ErrorCode::Decompression => "DecompressionError",
            ErrorCode::BufferedStreamRejected => "BufferedStreamRejected",
            ErrorCode::SessionGone => "SessionGone",
        }
    }
}

impl fmt::Display for ErrorCode {
    ghost use Rattle.std.specs.Prelude.{Some};
    ghost use Rattle.wtp_core.specs.ErrorCodes.{name_of};

    ghost output = { λ code. Some (name_of code) };

    ghost styled_output = { λ code _. Some (name_of code) };

    fn fmt<W: fmt::Write>(&self, f: &mut fmt::Formatter<W>) -> fmt::Result {
        f.write_str(self.name())
    }
}

impl fmt::Debug for ErrorCode {
    ghost use Rattle.std.specs.Prelude.{Some};
    ghost use Rattle.wtp_core.specs.ErrorCodes.{name_of, code_number, debug_text_of};

    ghost debug_output = { λ code. Some (debug_text_of code) };

    fn fmt<W: fmt::Write>(&self, f: &mut fmt::Formatter<W>) -> fmt::Result {
        let name = self.name();
        let code = self.to_code().into_inner();
        write!(f, "{name} (code: {code})")
    }
}

impl std::error::Error for ErrorCode {}

/// The reason why a call failed: an error code, or a failed allocation.
#[derive(Debug, Drop, PartialEq, Eq, thiserror::Error)]
pub enum Refused {
    /// The peer's bytes are invalid.
    #[error("{0}")]
    Code(ErrorCode),
    /// Memory allocation failed.
    #[error("no memory")]
    Memory,
}

// The registered numbers.
const _: () = prove!(h3_error_codes::H3_DATAGRAM_ERROR.value == 0x33);

const _: () = prove!(h3_error_codes::H3_NO_ERROR.value == 0x0100);

const _: () = prove!(h3_error_codes::H3_STREAM_CREATION_ERROR.value == 0x0103);

const _: () = prove!(h3_error_codes::H3_CLOSED_CRITICAL_STREAM.value == 0x0104);

const _: () = prove!(h3_error_codes::H3_FRAME_UNEXPECTED.value == 0x0105);

const _: () = prove!(h3_error_codes::H3_FRAME_ERROR.value == 0x0106);

const _: () = prove!(h3_error_codes::H3_EXCESSIVE_LOAD.value == 0x0107);

const _: () = prove!(h3_error_codes::H3_ID_ERROR.value == 0x0108);

const _: () = prove!(h3_error_codes::H3_SETTINGS_ERROR.value == 0x0109);

const _: () = prove!(h3_error_codes::H3_MISSING_SETTINGS.value == 0x010a);

const _: () = prove!(h3_error_codes::H3_REQUEST_REJECTED.value == 0x010b);

const _: () = prove!(h3_error_codes::H3_MESSAGE_ERROR.value == 0x010e);

const _: () = prove!(qpack_error_codes::QPACK_DECOMPRESSION_FAILED.value == 0x0200);

const _: () = prove!(wt_error_codes::WEBTRANSPORT_BUFFERED_STREAM_REJECTED.value == 0x3994bd84);

const _: () = prove!(wt_error_codes::WEBTRANSPORT_SESSION_GONE.value == 0x170d7b68);
