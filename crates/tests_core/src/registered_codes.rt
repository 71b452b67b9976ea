//! Error codes with any number, and reserved numbers.
use crate::same::assert_same;
use crate::texts::displays;
use std::process::Abort;
use wtp_core::error::{Code, ErrorScope};
use wtp_core::numbers::is_reserved;
use wtp_core::varint::VarInt;

/// A code in the registry of HTTP/3 error codes (RFC 9114, section 11.2.3; RFC 9204, section 8.3;
/// RFC 9297, section 5.2; WebTransport over HTTP/3).
struct CodeRow {
    name: &'static str,
    number: u32,
    description: &'static str,
    scope: ErrorScope,
}

/// All registered codes, and those of later drafts of WebTransport over HTTP/3.
static REGISTERED: [CodeRow; 26] = [
    CodeRow {
        name: "H3_DATAGRAM_ERROR",
        number: 0x0033,
        description: "Datagram or Capsule Protocol parse error",
        scope: ErrorScope::Either,
    },
    CodeRow {
        name: "H3_NO_ERROR",
        number: 0x0100,
        description: "No error",
        scope: ErrorScope::Either,
    },
    CodeRow {
        name: "H3_GENERAL_PROTOCOL_ERROR",
        number: 0x0101,
        description: "General protocol error",
        scope: ErrorScope::Either,
    },
    CodeRow {
        name: "H3_INTERNAL_ERROR",
        number: 0x0102,
        description: "Internal error",
        scope: ErrorScope::Either,
    },
    CodeRow {
        name: "H3_STREAM_CREATION_ERROR",
        number: 0x0103,
        description: "Stream creation error",
        scope: ErrorScope::Either,
    },
    CodeRow {
        name: "H3_CLOSED_CRITICAL_STREAM",
        number: 0x0104,
        description: "Critical stream was closed",
        scope: ErrorScope::Connection,
    },
    CodeRow {
        name: "H3_FRAME_UNEXPECTED",
        number: 0x0105,
        description: "Frame not permitted in the current state",
        scope: ErrorScope::Connection,
    },
    CodeRow {
        name: "H3_FRAME_ERROR",
        number: 0x0106,
        description: "Frame violated layout or size rules",
        scope: ErrorScope::Connection,
    },
    CodeRow {
        name: "H3_EXCESSIVE_LOAD",
        number: 0x0107,
        description: "Peer generating excessive load",
        scope: ErrorScope::Connection,
    },
    CodeRow {
        name: "H3_ID_ERROR",
        number: 0x0108,
        description: "An identifier was used incorrectly",
        scope: ErrorScope::Connection,
    },
    CodeRow {
        name: "H3_SETTINGS_ERROR",
        number: 0x0109,
        description: "SETTINGS frame contained invalid values",
        scope: ErrorScope::Connection,
    },
    CodeRow {
        name: "H3_MISSING_SETTINGS",
        number: 0x010a,
        description: "No SETTINGS frame received",
        scope: ErrorScope::Connection,
    },
    CodeRow {
        name: "H3_REQUEST_REJECTED",
        number: 0x010b,
        description: "Request not processed",
        scope: ErrorScope::Stream,
    },
    CodeRow {
        name: "H3_REQUEST_CANCELLED",
        number: 0x010c,
        description: "Data no longer needed",
        scope: ErrorScope::Stream,
    },
    CodeRow {
        name: "H3_REQUEST_INCOMPLETE",
        number: 0x010d,
        description: "Stream terminated early",
        scope: ErrorScope::Stream,
    },
    CodeRow {
        name: "H3_MESSAGE_ERROR",
        number: 0x010e,
        description: "Malformed message",
        scope: ErrorScope::Stream,
    },
    CodeRow {
        name: "H3_CONNECT_ERROR",
        number: 0x010f,
        description: "TCP reset or error on CONNECT request",
        scope: ErrorScope::Stream,
    },
    CodeRow {
        name: "H3_VERSION_FALLBACK",
        number: 0x0110,
        description: "Retry over HTTP/1.1",
        scope: ErrorScope::Either,
    },
    CodeRow {
        name: "QPACK_DECOMPRESSION_FAILED",
        number: 0x0200,
        description: "Decompression of a field section failed",
        scope: ErrorScope::Connection,
    },
    CodeRow {
        name: "QPACK_ENCODER_STREAM_ERROR",
        number: 0x0201,
        description: "Error on the encoder stream",
        scope: ErrorScope::Connection,
    },
    CodeRow {
        name: "QPACK_DECODER_STREAM_ERROR",
        number: 0x0202,
        description: "Error on the decoder stream",
        scope: ErrorScope::Connection,
    },
    CodeRow {
        name: "WEBTRANSPORT_BUFFERED_STREAM_REJECTED",
        number: 0x3994bd84,
        description: "WebTransport data stream rejected due to lack of associated session",
        scope: ErrorScope::Stream,
    },
    CodeRow {
        name: "WEBTRANSPORT_SESSION_GONE",
        number: 0x170d7b68,
        description: "WebTransport data stream aborted because the associated WebTransport session \
        has been closed",
        scope: ErrorScope::Stream,
    },
    CodeRow {
        name: "WT_FLOW_CONTROL_ERROR",
        number: 0x45d4487,
        description: "WebTransport session aborted due to a flow control error",
        scope: ErrorScope::Stream,
    },
    CodeRow {
        name: "WT_ALPN_ERROR",
        number: 0x817b3dd,
        description: "WebTransport session aborted because application protocol negotiation failed",
        scope: ErrorScope::Stream,
    },
    CodeRow {
        name: "WT_REQUIREMENTS_NOT_MET",
        number: 0x212c0d48,
        description: "WebTransport session aborted because a requirement is not met",
        scope: ErrorScope::Stream,
    },
];

/// Asserts the properties of a registered code.
fn check<R: Abort + AllocGlobal>(rt: &R, row: &CodeRow) {
    let CodeRow {
        name,
        number,
        description,
        scope,
    } = *row;
    let code = Code::new(VarInt::from_u32(number));
    assert_same(rt, code.number(), VarInt::from_u32(number), name);
    assert_same(rt, code.name(), Some(name), name);
    assert_same(rt, code.description(), Some(description), name);
    assert_same(rt, code.scope(), scope, name);
    displays(rt, &code, name);
}

#[test]
fn codes_are_registered(rt: HostRuntime) {
    for row in &REGISTERED {
        check(&rt, row);
    }
}

/// A number that is not registered, and its printed form.
type OtherRow = (u32, &'static str);

/// Numbers that are not registered. They are treated as H3_NO_ERROR (RFC 9114, section 8).
static OTHERS: [OtherRow; 7] = [
    (0x00, "0x0"),
    (0x21, "0x21"),
    (0x32, "0x32"),
    (0xff, "0xff"),
    (0x111, "0x111"),
    (0x203, "0x203"),
    (0x3994_bd85, "0x3994bd85"),
];

/// Asserts the properties of a number that is not registered.
fn check_other<R: Abort + AllocGlobal>(rt: &R, row: &OtherRow) {
    let (number, text) = *row;
    let code = Code::new(VarInt::from_u32(number));
    assert_same(rt, code.name(), None, text);
    assert_same(rt, code.description(), None, text);
    assert_same(rt, code.scope(), ErrorScope::Either, text);
    displays(rt, &code, text);
}

#[test]
fn other_numbers_are_codes(rt: HostRuntime) {
    for row in &OTHERS {
        check_other(&rt, row);
    }
}

/// A number, whether it is reserved, and the case. The reserved numbers are 0x21, 0x40,
/// .. through 0x3ffffffffffffffe (RFC 9114, sections 7.2.8 and 11.2.1).
type ReservedRow = (u64, bool, &'static str);

static RESERVED: [ReservedRow; 8] = [
    (0x00, false, "0"),
    (0x02, false, "0x21 less 0x1f"),
    (0x20, false, "0x20"),
    (0x21, true, "0x21"),
    (0x22, false, "0x22"),
    (0x40, true, "0x40"),
    (0x3fff_ffff_ffff_fffe, true, "the largest of them"),
    (0x3fff_ffff_ffff_ffff, false, "the largest number"),
];

#[test]
fn reserved_numbers(rt: HostRuntime) {
    for (number, reserved, case) in &RESERVED {
        let came = VarInt::try_from_u64(*number).map(is_reserved);
        assert_same(&rt, came, Ok(*reserved), case);
    }
}
