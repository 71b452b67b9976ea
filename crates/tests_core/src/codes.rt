//! Error codes: their numbers and printed names.
use crate::same::assert_same;
use crate::texts::{debugs, displays};
use std::process::Abort;
use wtp_core::error::{ErrorCode, Refused, h3_error_codes, qpack_error_codes, wt_error_codes};
use wtp_core::varint::VarInt;

/// An error code and its forms.
struct CodeRow {
    name: &'static str,
    code: ErrorCode,
    number: u64,
    /// Its debug output.
    debug: &'static str,
}

/// The error codes of HTTP/3 streams and connections, of QPACK, and of WebTransport.
static CODES: [CodeRow; 15] = [
    CodeRow {
        name: "DatagramError",
        code: ErrorCode::Datagram,
        number: 51,
        debug: "DatagramError (code: 51)",
    },
    CodeRow {
        name: "NoError",
        code: ErrorCode::NoError,
        number: 256,
        debug: "NoError (code: 256)",
    },
    CodeRow {
        name: "StreamCreationError",
        code: ErrorCode::StreamCreation,
        number: 259,
        debug: "StreamCreationError (code: 259)",
    },
    CodeRow {
        name: "ClosedCriticalStreamError",
        code: ErrorCode::ClosedCriticalStream,
        number: 260,
        debug: "ClosedCriticalStreamError (code: 260)",
    },
    CodeRow {
        name: "FrameUnexpectedError",
        code: ErrorCode::FrameUnexpected,
        number: 261,
        debug: "FrameUnexpectedError (code: 261)",
    },
    CodeRow {
        name: "FrameError",
        code: ErrorCode::Frame,
        number: 262,
        debug: "FrameError (code: 262)",
    },
    CodeRow {
        name: "ExcessiveLoad",
        code: ErrorCode::ExcessiveLoad,
        number: 263,
        debug: "ExcessiveLoad (code: 263)",
    },
    CodeRow {
        name: "IdError",
        code: ErrorCode::Id,
        number: 264,
        debug: "IdError (code: 264)",
    },
    CodeRow {
        name: "SettingsError",
        code: ErrorCode::Settings,
        number: 265,
        debug: "SettingsError (code: 265)",
    },
    CodeRow {
        name: "MissingSettingsError",
        code: ErrorCode::MissingSettings,
        number: 266,
        debug: "MissingSettingsError (code: 266)",
    },
    CodeRow {
        name: "RequestRejectedError",
        code: ErrorCode::RequestRejected,
        number: 267,
        debug: "RequestRejectedError (code: 267)",
    },
    CodeRow {
        name: "MessageError",
        code: ErrorCode::Message,
        number: 270,
        debug: "MessageError (code: 270)",
    },
    CodeRow {
        name: "DecompressionError",
        code: ErrorCode::Decompression,
        number: 512,
        debug: "DecompressionError (code: 512)",
    },
    CodeRow {
        name: "BufferedStreamRejected",
        code: ErrorCode::BufferedStreamRejected,
        number: 966049156,
        debug: "BufferedStreamRejected (code: 966049156)",
    },
    CodeRow {
        name: "SessionGone",
        code: ErrorCode::SessionGone,
        number: 386759528,
        debug: "SessionGone (code: 386759528)",
    },
];

/// Returns the constant of an error code. A `static` cannot hold a `VarInt`, so it is no column of
/// the table.
fn constant_of(code: ErrorCode) -> VarInt {
    match code {
        ErrorCode::Datagram => h3_error_codes::H3_DATAGRAM_ERROR,
        ErrorCode::NoError => h3_error_codes::H3_NO_ERROR,
        ErrorCode::StreamCreation => h3_error_codes::H3_STREAM_CREATION_ERROR,
        ErrorCode::ClosedCriticalStream => h3_error_codes::H3_CLOSED_CRITICAL_STREAM,
        ErrorCode::FrameUnexpected => h3_error_codes::H3_FRAME_UNEXPECTED,
        ErrorCode::Frame => h3_error_codes::H3_FRAME_ERROR,
        ErrorCode::ExcessiveLoad => h3_error_codes::H3_EXCESSIVE_LOAD,
        ErrorCode::Id => h3_error_codes::H3_ID_ERROR,
        ErrorCode::Settings => h3_error_codes::H3_SETTINGS_ERROR,
        ErrorCode::MissingSettings => h3_error_codes::H3_MISSING_SETTINGS,
        ErrorCode::RequestRejected => h3_error_codes::H3_REQUEST_REJECTED,
        ErrorCode::Message => h3_error_codes::H3_MESSAGE_ERROR,
        ErrorCode::Decompression => qpack_error_codes::QPACK_DECOMPRESSION_FAILED,
        ErrorCode::BufferedStreamRejected => wt_error_codes::WEBTRANSPORT_BUFFERED_STREAM_REJECTED,
        ErrorCode::SessionGone => wt_error_codes::WEBTRANSPORT_SESSION_GONE,
    }
}

/// Asserts the number, the constant and the printed forms of an error code.
fn check<R: Abort + AllocGlobal>(rt: &R, row: &CodeRow) {
    let CodeRow {
        name,
        code,
        number,
        debug,
    } = *row;
    let constant = constant_of(code);
    let came = (code.to_code(), constant.into_inner());
    assert_same(rt, came, (constant, number), name);
    displays(rt, &code, name);
    debugs(rt, &code, debug);
}

#[test]
fn codes_have_their_numbers_and_names(rt: HostRuntime) {
    for row in &CODES {
        check(&rt, row);
    }
}

#[test]
fn refusals_print_their_cause(rt: HostRuntime) {
    displays(&rt, &Refused::Code(ErrorCode::Id), "IdError");
    displays(&rt, &Refused::Memory, "no memory");
}
