//! Sections that refer to the dynamic table. The fields and the first rows are those of RFC 9204,
//! Appendix B.2 to B.4; the authority in Huffman text is that of RFC 7541, appendix C.4.1.
use crate::messages::{assert_written, list_of, stream};
use crate::same::assert_same;
use std::alloc::{AllocError, Global};
use std::process::Abort;
use std::test::Fail;
use wtp_core::bytes::BufferWriter;
use wtp_dynamic_encoder::encoder::QpackEncoder;
use wtp_fields::fields::FieldList;
use wtp_messages::response::Asked;
use wtp_sending::error::SendError;
use wtp_sending::message::Sending;
use wtp_sending::peer::Peer;

static GET: [(&[u8], &[u8]); 4] = [
    (b":method", b"GET"),
    (b":scheme", b"https"),
    (b":authority", b"www.example.com"),
    (b":path", b"/"),
];

/// The same with fields that are never indexed, and a path that is not inserted.
static SECRETS: [(&[u8], &[u8]); 6] = [
    (b":method", b"GET"),
    (b":scheme", b"https"),
    (b":authority", b"www.example.com"),
    (b":path", b"/a"),
    (b"authorization", b"a"),
    (b"cookie", b"a=b"),
];

static COOKIE: [(&[u8], &[u8]); 2] = [(b":status", b"200"), (b"set-cookie", b"a=b")];

/// Set Dynamic Table Capacity to 220.
static CAPACITY: [u8; 3] = [0x3f, 0xbd, 0x01];

/// Insert With Name Reference: the first entry of the static table, `www.example.com`.
static INSERT: [u8; 14] = [
    0xc0, 0x8c, 0xf1, 0xe3, 0xc2, 0xe5, 0xf2, 0x3a, 0x6b, 0xa0, 0xab, 0x90, 0xf4, 0xff,
];

/// HEADERS of [`GET`]: Required Insert Count 1, Base 1, two static entries, the dynamic entry, and a
/// static entry.
static REFERS: [u8; 8] = [0x01, 0x06, 0x02, 0x00, 0xd1, 0xd7, 0x80, 0xc1];

/// HEADERS of [`GET`] with no reference to the dynamic table.
static REFERS_NOT: [u8; 21] = [
    0x01, 0x13, 0x00, 0x00, 0xd1, 0xd7, 0x50, 0x8c, 0xf1, 0xe3, 0xc2, 0xe5, 0xf2, 0x3a, 0x6b, 0xa0,
    0xab, 0x90, 0xf4, 0xff, 0xc1,
];

/// HEADERS of [`SECRETS`], which refers to the dynamic entry: after it the path as a literal, and two
/// literals with the bit N.
static KEEPS_SECRETS: [u8; 20] = [
    0x01, 0x12, 0x02, 0x00, 0xd1, 0xd7, 0x80, 0x51, 0x02, b'/', b'a', 0x7f, 0x45, 0x01, b'a', 0x75,
    0x03, b'a', b'=', b'b',
];

/// HEADERS of [`SECRETS`] without the dynamic table: the same but for the authority.
static KEEPS_SECRETS_ALONE: [u8; 33] = [
    0x01, 0x1f, 0x00, 0x00, 0xd1, 0xd7, 0x50, 0x8c, 0xf1, 0xe3, 0xc2, 0xe5, 0xf2, 0x3a, 0x6b, 0xa0,
    0xab, 0x90, 0xf4, 0xff, 0x51, 0x02, b'/', b'a', 0x7f, 0x45, 0x01, b'a', 0x75, 0x03, b'a', b'=',
    b'b',
];

/// HEADERS of [`COOKIE`]: a static entry, and a literal with the bit N.
static KEEPS_COOKIE: [u8; 10] = [0x01, 0x08, 0x00, 0x00, 0xd9, 0x7e, 0x03, b'a', b'=', b'b'];

/// Returns an encoder with a table of 220 bytes, where so many streams may be blocked.
fn encoder(
    alloc: Global,
    most: u64,
    instructions: &mut Vec<u8>,
) -> Result<QpackEncoder, AllocError> {
    let mut encoder = QpackEncoder::new(alloc, 220, most);
    let _set = encoder.set_capacity(220, instructions)?;
    Ok(encoder)
}

#[test]
fn a_request_refers_to_what_it_inserts_if_its_stream_may_be_blocked(
    rt: HostRuntime,
) -> Result<(), Fail> {
    let alloc = rt.alloc();
    let (mut bytes, mut out) = (Vec::new(alloc), Vec::new(alloc));
    let list = FieldList::from_fields(alloc, &GET)?;
    let mut encoder = encoder(alloc, 1, &mut bytes)?;
    assert_written(&rt, &mut bytes, &CAPACITY, "the capacity");
    let mut first = Sending::request(stream(&rt, 0), Peer::new());
    first.headers_with(alloc, &list, &mut encoder, &mut bytes, &mut out)?;
    assert_written(&rt, &mut bytes, &INSERT, "the insertion");
    assert_written(&rt, &mut out, &REFERS, "the first request");
    assert_same(&rt, encoder.unacknowledged(), 1, "its section");
    let mut second = Sending::request(stream(&rt, 4), Peer::new());
    second.headers_with(alloc, &list, &mut encoder, &mut bytes, &mut out)?;
    assert_written(&rt, &mut out, &REFERS_NOT, "one stream may be blocked");
    let told = encoder.read_decoder_stream(&[0x80]).is_ok();
    assert_same(&rt, told, true, "Section Acknowledgment");
    assert_same(&rt, encoder.unacknowledged(), 0, "no section");
    let mut third = Sending::request(stream(&rt, 8), Peer::new());
    third.headers_with(alloc, &list, &mut encoder, &mut bytes, &mut out)?;
    assert_written(&rt, &mut out, &REFERS, "after the acknowledgment");
    assert_written(&rt, &mut bytes, b"", "no other insertion");
    Ok(())
}

#[test]
fn a_request_refers_to_nothing_new_if_no_stream_may_be_blocked(
    rt: HostRuntime,
) -> Result<(), Fail> {
    let alloc = rt.alloc();
    let (mut bytes, mut out) = (Vec::new(alloc), Vec::new(alloc));
    let list = FieldList::from_fields(alloc, &GET)?;
    let mut encoder = encoder(alloc, 0, &mut bytes)?;
    bytes.clear();
    let mut first = Sending::request(stream(&rt, 0), Peer::new());
    first.headers_with(alloc, &list, &mut encoder, &mut bytes, &mut out)?;
    assert_written(&rt, &mut bytes, &INSERT, "the insertion");
    assert_written(&rt, &mut out, &REFERS_NOT, "the first request");
    assert_same(&rt, encoder.unacknowledged(), 0, "no section");
    let told = encoder.read_decoder_stream(&[0x01]).is_ok();
    assert_same(&rt, told, true, "Insert Count Increment");
    let mut second = Sending::request(stream(&rt, 4), Peer::new());
    second.headers_with(alloc, &list, &mut encoder, &mut bytes, &mut out)?;
    assert_written(&rt, &mut out, &REFERS, "the second request");
    assert_same(&rt, encoder.unacknowledged(), 1, "its section");
    Ok(())
}

#[test]
fn a_section_that_does_not_fit_is_taken_back(rt: HostRuntime) -> Result<(), Fail> {
    let alloc = rt.alloc();
    let (mut bytes, mut out) = (Vec::new(alloc), Vec::new(alloc));
    let list = FieldList::from_fields(alloc, &GET)?;
    let mut encoder = encoder(alloc, 1, &mut bytes)?;
    bytes.clear();
    let mut sending = Sending::request(stream(&rt, 0), Peer::new());
    let mut room = [0; 7];
    let mut short = BufferWriter::new(&mut room);
    let full = sending.headers_with(alloc, &list, &mut encoder, &mut bytes, &mut short);
    assert_same(&rt, full, Err(SendError::EndOfBuffer), "7 of 8 bytes");
    assert_written(&rt, &mut bytes, &INSERT, "the insertion stays");
    assert_same(&rt, encoder.unacknowledged(), 0, "no section");
    sending.headers_with(alloc, &list, &mut encoder, &mut bytes, &mut out)?;
    assert_written(&rt, &mut out, &REFERS, "the next try");
    assert_written(&rt, &mut bytes, b"", "no other insertion");
    assert_same(&rt, encoder.unacknowledged(), 1, "its section");
    let again = sending.headers_with(alloc, &list, &mut encoder, &mut bytes, &mut out);
    assert_same(&rt, again, Err(SendError::Unexpected), "HEADERS again");
    assert_same(&rt, encoder.unacknowledged(), 1, "no other section");
    Ok(())
}

#[test]
fn secrets_are_never_indexed(rt: HostRuntime) -> Result<(), Fail> {
    let alloc = rt.alloc();
    let (mut bytes, mut out) = (Vec::new(alloc), Vec::new(alloc));
    let mut encoder = encoder(alloc, 1, &mut bytes)?;
    bytes.clear();
    let mut request = Sending::request(stream(&rt, 0), Peer::new());
    let list = FieldList::from_fields(alloc, &SECRETS)?;
    request.headers_with(alloc, &list, &mut encoder, &mut bytes, &mut out)?;
    assert_written(&rt, &mut out, &KEEPS_SECRETS, "a request");
    assert_written(&rt, &mut bytes, &INSERT, "the authority alone");
    let mut other = Sending::request(stream(&rt, 4), Peer::new());
    other.headers(alloc, &list, &mut out)?;
    assert_written(&rt, &mut out, &KEEPS_SECRETS_ALONE, "without the table");
    let mut response = Sending::response(stream(&rt, 4), Asked::Other, Peer::new());
    let list = FieldList::from_fields(alloc, &COOKIE)?;
    response.headers_with(alloc, &list, &mut encoder, &mut bytes, &mut out)?;
    assert_written(&rt, &mut out, &KEEPS_COOKIE, "a response");
    let mut other = Sending::response(stream(&rt, 8), Asked::Other, Peer::new());
    other.headers(alloc, &list, &mut out)?;
    assert_written(&rt, &mut out, &KEEPS_COOKIE, "without the table");
    assert_written(&rt, &mut bytes, b"", "nothing is inserted");
    let vary = list_of(alloc, b"\x00\x00\xfb")?;
    response.trailers_with(alloc, &vary, &mut encoder, &mut bytes, &mut out)?;
    assert_written(&rt, &mut out, b"\x01\x03\x00\x00\xfb", "trailers");
    let late = response.trailers_with(alloc, &vary, &mut encoder, &mut bytes, &mut out);
    assert_same(&rt, late, Err(SendError::Unexpected), "trailers again");
    Ok(())
}

#[test]
fn a_section_past_refused_memory(rt: HostRuntime) {
    let alloc = rt.alloc();
    let (mut bytes, mut out) = (Vec::new(alloc), Vec::new(alloc));
    let list = match FieldList::from_fields(alloc, &GET) {
        Ok(list) => list,
        Err(_) => FieldList::from_fields(alloc, &GET).expect(&rt, "a list"),
    };
    let mut encoder = QpackEncoder::new(alloc, 220, 1);
    if encoder.set_capacity(220, &mut bytes).is_err() {
        let _set = encoder
            .set_capacity(220, &mut bytes)
            .expect(&rt, "a capacity");
    }
    assert_written(&rt, &mut bytes, &CAPACITY, "the capacity");
    let mut sending = Sending::request(stream(&rt, 0), Peer::new());
    let first = sending.headers_with(alloc, &list, &mut encoder, &mut bytes, &mut out);
    if first.is_err() {
        assert_same(&rt, first, Err(SendError::Memory), "out of memory");
        assert_same(&rt, out.len(), 0, "nothing is written");
        assert_same(&rt, encoder.unacknowledged(), 0, "no section");
        let again = sending.headers_with(alloc, &list, &mut encoder, &mut bytes, &mut out);
        assert_same(&rt, again, Ok(()), "the next try");
    }
    assert_written(&rt, &mut bytes, &INSERT, "the insertion");
    assert_written(&rt, &mut out, &REFERS, "the request");
    assert_same(&rt, encoder.unacknowledged(), 1, "its section");
}
