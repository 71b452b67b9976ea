//! Requests and responses, with sections of the static table (RFC 9204, appendix A).
use crate::same::assert_same;
use std::alloc::Global;
use std::process::Abort;
use std::test::Fail;
use wtp_core::bytes::BufferWriter;
use wtp_core::ids::{SessionId, StreamId};
use wtp_core::varint::VarInt;
use wtp_fields::fields::{FieldList, FieldSectionError};
use wtp_messages::malformed::Malformed;
use wtp_messages::response::Asked;
use wtp_sending::error::SendError;
use wtp_sending::message::Sending;
use wtp_sending::peer::Peer;

/// A request as it is sent: `:method: GET`, `:scheme: https`, `:authority: www.example.com` (in the Huffman text of
/// RFC 7541, appendix C.4.1), `:path: /`.
static GET: [u8; 19] = [
    0x00, 0x00, 0xd1, 0xd7, 0x50, 0x8c, 0xf1, 0xe3, 0xc2, 0xe5, 0xf2, 0x3a, 0x6b, 0xa0, 0xab, 0x90,
    0xf4, 0xff, 0xc1,
];

/// `:status: 103`.
static EARLY_HINTS: [u8; 3] = [0x00, 0x00, 0xd8];

/// `:status: 200`, `content-length: 0`.
static EMPTY: [u8; 4] = [0x00, 0x00, 0xd9, 0xc4];

/// `:status: 200`, `content-type: text/plain`.
static OK: [u8; 4] = [0x00, 0x00, 0xd9, 0xf5];

/// `vary: accept-encoding`.
static VARY: [u8; 3] = [0x00, 0x00, 0xfb];

/// Decodes a section.
pub(crate) fn list_of(alloc: Global, section: &[u8]) -> Result<FieldList, FieldSectionError> {
    FieldList::decode(alloc, section, 4096)
}

/// Returns the ID of a request stream.
pub(crate) fn stream<R: Abort>(rt: &R, number: u32) -> SessionId {
    let id = StreamId::new(VarInt::from_u32(number));
    SessionId::try_from_session_stream(id).expect(rt, "a request stream")
}

/// Asserts that the bytes were written, and forgets them.
pub(crate) fn assert_written<R: Abort>(rt: &R, out: &mut Vec<u8>, bytes: &[u8], case: &str) {
    assert_same(rt, out.as_slice(), bytes, case);
    out.clear();
}

#[test]
fn a_request_has_a_head_content_and_trailers(rt: HostRuntime) -> Result<(), Fail> {
    let alloc = rt.alloc();
    let mut out = Vec::new(alloc);
    let mut sending = Sending::request(stream(&rt, 0), Peer::new());
    let head = list_of(alloc, &GET)?;
    let vary = list_of(alloc, &VARY)?;
    let early = sending.data(1, &mut out);
    assert_same(&rt, early, Err(SendError::Unexpected), "DATA first");
    let early = sending.trailers(alloc, &vary, &mut out);
    assert_same(&rt, early, Err(SendError::Unexpected), "trailers first");
    let early = sending.finish();
    let rule = Malformed::MissingHead;
    assert_same(&rt, early, Err(SendError::Malformed(rule)), "the end first");
    sending.headers(alloc, &head, &mut out)?;
    assert_same(&rt, out.get(..2), Some(b"\x01\x13".as_slice()), "HEADERS");
    assert_same(&rt, out.get(2..), Some(GET.as_slice()), "its section");
    out.clear();
    let again = sending.headers(alloc, &head, &mut out);
    assert_same(&rt, again, Err(SendError::Unexpected), "HEADERS again");
    sending.trailers(alloc, &vary, &mut out)?;
    assert_written(&rt, &mut out, b"\x01\x03\x00\x00\xfb", "trailers");
    sending.finish()?;
    assert_same(
        &rt,
        sending.finish(),
        Err(SendError::Unexpected),
        "the end again",
    );
    Ok(())
}

#[test]
fn data_has_the_bytes_of_its_head(rt: HostRuntime) -> Result<(), Fail> {
    let alloc = rt.alloc();
    let mut out = Vec::new(alloc);
    let mut sending = Sending::response(stream(&rt, 4), Asked::Other, Peer::new());
    sending.headers(alloc, &list_of(alloc, &OK)?, &mut out)?;
    out.clear();
    sending.data(16384, &mut out)?;
    assert_written(&rt, &mut out, b"\x00\x80\x00\x40\x00", "a head");
    assert_same(&rt, sending.owed(), 16384, "announced");
    let next = sending.data(1, &mut out);
    assert_same(&rt, next, Err(SendError::DataMissing), "another head");
    assert_same(
        &rt,
        sending.finish(),
        Err(SendError::DataMissing),
        "the end",
    );
    let more = sending.sent(16385);
    assert_same(&rt, more, Err(SendError::DataExceeded), "one byte more");
    sending.sent(16384)?;
    let empty = sending.data(0, &mut out);
    assert_same(&rt, empty, Err(SendError::EmptyData), "no bytes");
    let large = sending.data(0x4000_0000_0000_0000, &mut out);
    assert_same(&rt, large, Err(SendError::TooLarge), "2^62 bytes");
    assert_written(&rt, &mut out, b"", "nothing");
    sending.finish()?;
    Ok(())
}

#[test]
fn interim_responses_come_first(rt: HostRuntime) -> Result<(), Fail> {
    let alloc = rt.alloc();
    let mut out = Vec::new(alloc);
    let mut sending = Sending::response(stream(&rt, 4), Asked::Other, Peer::new());
    let hints = list_of(alloc, &EARLY_HINTS)?;
    for _response in 0..64 {
        out.clear();
        sending.headers(alloc, &hints, &mut out)?;
    }
    assert_written(&rt, &mut out, b"\x01\x03\x00\x00\xd8", "the 64th");
    let more = sending.headers(alloc, &hints, &mut out);
    assert_same(&rt, more, Err(SendError::TooManyInterim), "one more");
    sending.headers(alloc, &list_of(alloc, &EMPTY)?, &mut out)?;
    assert_written(&rt, &mut out, b"\x01\x04\x00\x00\xd9\xc4", "the final one");
    let long = sending.data(1, &mut out);
    let rule = Malformed::ContentTooLong;
    assert_same(
        &rt,
        long,
        Err(SendError::Malformed(rule)),
        "above content-length",
    );
    Ok(())
}

#[test]
fn refused_sections_are_not_written(rt: HostRuntime) -> Result<(), Fail> {
    let alloc = rt.alloc();
    let mut out = Vec::new(alloc);
    let small = Peer {
        max_section: 95,
        ..Peer::new()
    };
    let mut sending = Sending::response(stream(&rt, 4), Asked::Other, small);
    let large = sending.headers(alloc, &list_of(alloc, &OK)?, &mut out);
    assert_same(&rt, large, Err(SendError::TooLarge), "42 and 54 bytes");
    let wrong = sending.headers(alloc, &list_of(alloc, &VARY)?, &mut out);
    let rule = Malformed::MissingStatus;
    assert_same(&rt, wrong, Err(SendError::Malformed(rule)), "no :status");
    assert_written(&rt, &mut out, b"", "nothing");
    Ok(())
}

/// A response to a request that asked for this, and whether a server must not send it.
struct LengthRow {
    asked: Asked,
    section: &'static [u8],
    refused: bool,
    case: &'static str,
}

/// Responses with `content-length: 0` or `content-length: 5`, if with any (RFC 9110, sections 8.6 and 9.3.6).
static LENGTHS: [LengthRow; 12] = [
    LengthRow {
        asked: Asked::Other,
        section: b"\x00\x00\xff\x00\xc4",
        refused: true,
        case: "100",
    },
    LengthRow {
        asked: Asked::Other,
        section: b"\x00\x00\xd8\x54\x015",
        refused: true,
        case: "103",
    },
    LengthRow {
        asked: Asked::Session,
        section: b"\x00\x00\xd8\xc4",
        refused: true,
        case: "103 to a session's request",
    },
    LengthRow {
        asked: Asked::Other,
        section: b"\x00\x00\xff\x01\x54\x015",
        refused: true,
        case: "204",
    },
    LengthRow {
        asked: Asked::Head,
        section: b"\x00\x00\xff\x01\xc4",
        refused: true,
        case: "204 to HEAD",
    },
    LengthRow {
        asked: Asked::Connect,
        section: b"\x00\x00\xd9\x54\x015",
        refused: true,
        case: "200 to CONNECT",
    },
    LengthRow {
        asked: Asked::Connect,
        section: b"\x00\x00\xff\x01",
        refused: false,
        case: "204 to CONNECT without a length",
    },
    LengthRow {
        asked: Asked::Connect,
        section: b"\x00\x00\xdb\x54\x015",
        refused: false,
        case: "404 to CONNECT",
    },
    LengthRow {
        asked: Asked::Head,
        section: b"\x00\x00\xd9\x54\x015",
        refused: false,
        case: "200 to HEAD",
    },
    LengthRow {
        asked: Asked::Other,
        section: b"\x00\x00\xda\x54\x015",
        refused: false,
        case: "304",
    },
    LengthRow {
        asked: Asked::Other,
        section: b"\x00\x00\xd9\x54\x015",
        refused: false,
        case: "200",
    },
    LengthRow {
        asked: Asked::Session,
        section: b"\x00\x00\xdb\x54\x015",
        refused: false,
        case: "404 to a session's request",
    },
];

#[test]
fn a_length_that_says_nothing_is_not_sent(rt: HostRuntime) -> Result<(), Fail> {
    let alloc = rt.alloc();
    for row in &LENGTHS {
        let mut out = Vec::new(alloc);
        let mut sending = Sending::response(stream(&rt, 4), row.asked, Peer::new());
        let came = sending.headers(alloc, &list_of(alloc, row.section)?, &mut out);
        let rule = Malformed::InvalidContentLength;
        let wanted = if row.refused {
            Err(SendError::Malformed(rule))
        } else {
            Ok(())
        };
        assert_same(&rt, came, wanted, row.case);
        assert_same(&rt, out.is_empty(), row.refused, row.case);
        let next = sending.headers(alloc, &list_of(alloc, b"\x00\x00\xd9")?, &mut out);
        assert_same(&rt, next.is_ok(), row.refused, row.case);
    }
    Ok(())
}

#[test]
fn the_first_of_several_reasons_is_returned(rt: HostRuntime) -> Result<(), Fail> {
    let alloc = rt.alloc();
    let mut none = [];
    let mut full = BufferWriter::new(&mut none);
    let small = Peer {
        max_section: 41,
        ..Peer::new()
    };
    let vary = list_of(alloc, &VARY)?;
    let malformed = Err(SendError::Malformed(Malformed::MissingStatus));
    let mut sending = Sending::response(stream(&rt, 4), Asked::Other, small);
    let came = sending.headers(alloc, &vary, &mut full);
    assert_same(
        &rt,
        came,
        Err(SendError::TooLarge),
        "above the limit of 41 bytes, malformed",
    );
    let mut sending = Sending::response(stream(&rt, 4), Asked::Other, Peer::new());
    let came = sending.headers(alloc, &vary, &mut full);
    assert_same(&rt, came, malformed, "malformed, no space");
    let came = sending.headers(alloc, &list_of(alloc, &OK)?, &mut full);
    assert_same(&rt, came, Err(SendError::EndOfBuffer), "no space");
    let mut out = Vec::new(alloc);
    sending.headers(alloc, &list_of(alloc, &OK)?, &mut out)?;
    let came = sending.headers(alloc, &vary, &mut full);
    assert_same(
        &rt,
        came,
        Err(SendError::Unexpected),
        "after the head, malformed",
    );
    let came = sending.trailers(alloc, &list_of(alloc, &OK)?, &mut full);
    let unknown = Err(SendError::Malformed(Malformed::UnknownPseudoHeader));
    assert_same(&rt, came, unknown, "malformed trailers, no space");
    sending.data(1, &mut out)?;
    let came = sending.trailers(alloc, &list_of(alloc, &OK)?, &mut full);
    assert_same(
        &rt,
        came,
        Err(SendError::DataMissing),
        "a byte is missing, malformed",
    );
    Ok(())
}
