//! Error codes (RFC 9114, sections 8.1 and 11.2.3; RFC 9204, sections 6 and 8.3; RFC 9297, section
//! 5.2; WebTransport over HTTP/3, "HTTP/3 Error Code Registration").
ghost use Rattle.std.specs.Prelude.{◌≡◌, map, option_map};
ghost use Rattle.vesgrauf_registry.specs.Table.{among};
ghost use Rattle.vesgrauf_registry.specs.Codes.{code_of, shown_code};

use crate::row::{self, CName, Row};

/// What an error code ends (RFC 9114, section 8).
#[derive(Clone, Copy, Debug, PartialEq, Eq)]
pub enum Scope {
    /// One stream, which is reset or no longer read. The connection stays open.
    Stream,
    /// The connection, which is closed.
    Connection,
    /// The stream or the connection. Either the standards use the code for both, and the violated
    /// rule determines which; or no rule says what the code ends.
    Either,
}

/// What the standards say of an error code.
#[derive(Clone, Copy)]
pub struct Code {
    /// The description in the registry: one line without a full stop.
    pub description: &'static str,
    /// What the code ends.
    pub scope: Scope,
}

/// The error codes.
pub static CODES: [Row<Code>; 26] = [
    // RFC 9297, section 5.2
    Row {
        number: 0x33,
        name: "H3_DATAGRAM_ERROR",
        c_name: CName::Same,
        columns: Code {
            description: "Datagram or Capsule Protocol parse error",
            scope: Scope::Either,
        },
    },
    // RFC 9114, section 8.1
    Row {
        number: 0x0100,
        name: "H3_NO_ERROR",
        c_name: CName::Same,
        columns: Code {
            description: "No error",
            scope: Scope::Either,
        },
    },
    // RFC 9114, section 8.1
    Row {
        number: 0x0101,
        name: "H3_GENERAL_PROTOCOL_ERROR",
        c_name: CName::Same,
        columns: Code {
            description: "General protocol error",
            scope: Scope::Either,
        },
    },
    // RFC 9114, section 8.1
    Row {
        number: 0x0102,
        name: "H3_INTERNAL_ERROR",
        c_name: CName::Same,
        columns: Code {
            description: "Internal error",
            scope: Scope::Either,
        },
    },
    // RFC 9114, section 8.1
    Row {
        number: 0x0103,
        name: "H3_STREAM_CREATION_ERROR",
        c_name: CName::Same,
        columns: Code {
            description: "Stream creation error",
            scope: Scope::Either,
        },
    },
    // RFC 9114, section 8.1
    Row {
        number: 0x0104,
        name: "H3_CLOSED_CRITICAL_STREAM",
        c_name: CName::Same,
        columns: Code {
            description: "Critical stream was closed",
            scope: Scope::Connection,
        },
    },
    // RFC 9114, section 8.1
    Row {
        number: 0x0105,
        name: "H3_FRAME_UNEXPECTED",
        c_name: CName::Same,
        columns: Code {
            description: "Frame not permitted in the current state",
            scope: Scope::Connection,
        },
    },
    // RFC 9114, section 8.1
    Row {
        number: 0x0106,
        name: "H3_FRAME_ERROR",
        c_name: CName::Same,
        columns: Code {
            description: "Frame violated layout or size rules",
            scope: Scope::Connection,
        },
    },
    // RFC 9114, section 8.1
    Row {
        number: 0x0107,
        name: "H3_EXCESSIVE_LOAD",
        c_name: CName::Same,
        columns: Code {
            description: "Peer generating excessive load",
            scope: Scope::Connection,
        },
    },
    // RFC 9114, section 8.1
    Row {
        number: 0x0108,
        name: "H3_ID_ERROR",
        c_name: CName::Same,
        columns: Code {
            description: "An identifier was used incorrectly",
            scope: Scope::Connection,
        },
    },
    // RFC 9114, section 8.1
    Row {
        number: 0x0109,
        name: "H3_SETTINGS_ERROR",
        c_name: CName::Same,
        columns: Code {
            description: "SETTINGS frame contained invalid values",
            scope: Scope::Connection,
        },
    },
    // RFC 9114, section 8.1
    Row {
        number: 0x010a,
        name: "H3_MISSING_SETTINGS",
        c_name: CName::Same,
        columns: Code {
            description: "No SETTINGS frame received",
            scope: Scope::Connection,
        },
    },
    // RFC 9114, section 8.1
    Row {
        number: 0x010b,
        name: "H3_REQUEST_REJECTED",
        c_name: CName::Same,
        columns: Code {
            description: "Request not processed",
            scope: Scope::Stream,
        },
    },
    // RFC 9114, section 8.1
    Row {
        number: 0x010c,
        name: "H3_REQUEST_CANCELLED",
        c_name: CName::Same,
        columns: Code {
            description: "Data no longer needed",
            scope: Scope::Stream,
        },
    },
    // RFC 9114, section 8.1
    Row {
        number: 0x010d,
        name: "H3_REQUEST_INCOMPLETE",
        c_name: CName::Same,
        columns: Code {
            description: "Stream terminated early",
            scope: Scope::Stream,
        },
    },
    // RFC 9114, section 8.1
    Row {
        number: 0x010e,
        name: "H3_MESSAGE_ERROR",
        c_name: CName::Same,
        columns: Code {
            description: "Malformed message",
            scope: Scope::Stream,
        },
    },
    // RFC 9114, section 8.1
    Row {
        number: 0x010f,
        name: "H3_CONNECT_ERROR",
        c_name: CName::Same,
        columns: Code {
            description: "TCP reset or error on CONNECT request",
            scope: Scope::Stream,
        },
    },
    // RFC 9114, section 8.1
    Row {
        number: 0x0110,
        name: "H3_VERSION_FALLBACK",
        c_name: CName::Same,
        columns: Code {
            description: "Retry over HTTP/1.1",
            scope: Scope::Either,
        },
    },
    // RFC 9204, section 6
    Row {
        number: 0x0200,
        name: "QPACK_DECOMPRESSION_FAILED",
        c_name: CName::Same,
        columns: Code {
            description: "Decompression of a field section failed",
            scope: Scope::Connection,
        },
    },
    // RFC 9204, section 6
    Row {
        number: 0x0201,
        name: "QPACK_ENCODER_STREAM_ERROR",
        c_name: CName::Same,
        columns: Code {
            description: "Error on the encoder stream",
            scope: Scope::Connection,
        },
    },
    // RFC 9204, section 6
    Row {
        number: 0x0202,
        name: "QPACK_DECODER_STREAM_ERROR",
        c_name: CName::Same,
        columns: Code {
            description: "Error on the decoder stream",
            scope: Scope::Connection,
        },
    },
    // draft-ietf-webtrans-http3-07
    Row {
        number: 0x3994_bd84,
        name: "WEBTRANSPORT_BUFFERED_STREAM_REJECTED",
        c_name: CName::Same,
        columns: Code {
            description: "WebTransport data stream rejected due to lack of associated session",
            scope: Scope::Stream,
        },
    },
    // draft-ietf-webtrans-http3-07
    Row {
        number: 0x170d_7b68,
        name: "WEBTRANSPORT_SESSION_GONE",
        c_name: CName::Same,
        columns: Code {
            description: "WebTransport data stream aborted because the associated WebTransport session has been closed",
            scope: Scope::Stream,
        },
    },
    // later drafts of WebTransport over HTTP/3
    Row {
        number: 0x045d_4487,
        name: "WT_FLOW_CONTROL_ERROR",
        c_name: CName::Same,
        columns: Code {
            description: "WebTransport session aborted due to a flow control error",
            scope: Scope::Stream,
        },
    },
    // later drafts of WebTransport over HTTP/3
    Row {
        number: 0x0817_b3dd,
        name: "WT_ALPN_ERROR",
        c_name: CName::Same,
        columns: Code {
            description: "WebTransport session aborted because application protocol negotiation failed",
            scope: Scope::Stream,
        },
    },
    // later drafts of WebTransport over HTTP/3
    Row {
        number: 0x212c_0d48,
        name: "WT_REQUIREMENTS_NOT_MET",
        c_name: CName::Same,
        columns: Code {
            description: "WebTransport session aborted because a requirement is not met",
            scope: Scope::Stream,
        },
    },
];

// Returns the first of these rows with this number.
fn find_in(rows: &'static [Row<Code>], number: u64) -> Option<&'static Row<Code>>
    ensures { option_map (λ row. shown_code row.now) result
        ≡ among number (map (λ row. shown_code row) rows.now) }
{
    row::find(rows, number)
}

/// Returns the row of an error code, or `None` if the code is not registered.
#[tactic(auto, unfolding(crate::specs::Codes::code_of, crate::specs::Codes::registered))]
pub fn find_code(number: u64) -> Option<&'static Row<Code>>
    ensures { option_map (λ row. shown_code row.now) result ≡ code_of number }
{
    find_in(&CODES, number)
}
