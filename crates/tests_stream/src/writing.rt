//! What is queued on the own half of a stream (RFC 9114, sections 4.1 and 7.2). The fields and their sections are those of
//! RFC 9204, appendices A and B.2; the authority in Huffman text is that of RFC 7541, appendix C.4.1.
use std::alloc::{AllocError, Global};
use std::process::Abort;
use std::test::Fail;
use vesgrauf_queue::config::QueueConfig;
use vesgrauf_stream::error::NotSent;
use vesgrauf_stream::tools::Tools;
use vesgrauf_stream::writing::Writing;
use wtp_core::ids::{SessionId, StreamId};
use wtp_core::varint::VarInt;
use wtp_fields::fields::FieldList;
use wtp_messages::malformed::Malformed;
use wtp_messages::response::Asked;
use wtp_sending::error::SendError;
use wtp_sending::peer::Peer;

/// Bytes are kept until they are acknowledged, and the mark is above all that the tests queue.
const KEPT: QueueConfig = QueueConfig {
    mark: 1_000_000,
    keep_until_acked: true,
    bound_by_acked: false,
};

static GET: [(&[u8], &[u8]); 4] = [
    (b":method", b"GET"),
    (b":scheme", b"https"),
    (b":authority", b"www.example.com"),
    (b":path", b"/"),
];

/// The same, and the length of content.
static SIZED_GET: [(&[u8], &[u8]); 5] = [
    (b":method", b"GET"),
    (b":scheme", b"https"),
    (b":authority", b"www.example.com"),
    (b":path", b"/"),
    (b"content-length", b"5"),
];

static OK: [(&[u8], &[u8]); 1] = [(b":status", b"200")];

static SIZED: [(&[u8], &[u8]); 2] = [(b":status", b"200"), (b"content-length", b"5")];

static VARY: [(&[u8], &[u8]); 1] = [(b"vary", b"accept-encoding")];

/// HEADERS of [`GET`]: Required Insert Count 1, Base 1, two static entries, the dynamic entry, and a static entry.
static REFERS: [u8; 8] = [0x01, 0x06, 0x02, 0x00, 0xd1, 0xd7, 0x80, 0xc1];

/// Returns the ID of a request's stream.
fn stream<R: Abort>(rt: &R, number: u32) -> SessionId {
    let id = StreamId::new(VarInt::from_u32(number));
    SessionId::try_from_session_stream(id).expect(rt, "a request stream")
}

/// Returns tools whose encoder has a table of 220 bytes, for a peer of which one stream may be blocked.
fn tools(alloc: Global) -> Result<Tools, AllocError> {
    let mut tools = Tools::new(alloc);
    let _set = tools.encoder.set_limits(220, 1);
    let _sized = tools.encoder.set_capacity(220, &mut tools.instructions)?;
    Ok(tools)
}

/// QUIC takes all that waits: these bytes, and the end with them or not.
fn assert_taken<R: Abort>(
    rt: &R,
    writing: &mut Writing,
    tools: &mut Tools,
    bytes: &[u8],
    fin: bool,
) {
    match writing.next() {
        Some(next) => {
            assert!(rt; next.bytes == bytes, "what waits");
            assert!(rt; next.more.is_empty(), "in one slice");
            assert!(rt; next.fin == fin, "whether the end follows");
        }
        None => panic!(rt; "something waits"),
    }
    assert!(rt;
        writing.sent(&mut tools.spares, bytes.len()).is_ok(),
        "it was shown"
    );
}

#[test]
fn a_response_is_queued_in_order(rt: HostRuntime) -> Result<(), Fail> {
    let alloc = rt.alloc();
    let (id, peer) = (stream(&rt, 0), Peer::new());
    let mut tools = Tools::new(alloc);
    let mut writing = Writing::idle(alloc, KEPT);
    let list = FieldList::from_fields(alloc, &OK)?;
    let early = writing.respond(&mut tools, id, peer, &list, false);
    assert!(rt; early == Err(NotSent::None), "no request came");
    writing.ask(Asked::Other);
    let early = writing.send(&mut tools.spares, b"abc", false);
    assert!(rt;
        early == Err(NotSent::Send(SendError::Unexpected)),
        "no HEADERS yet"
    );
    writing.respond(&mut tools, id, peer, &list, false)?;
    assert!(rt;
        writing.send(&mut tools.spares, b"abc", false)?,
        "there is room"
    );
    assert!(rt;
        writing.send(&mut tools.spares, b"", false)?,
        "no bytes are no frame"
    );
    writing.trailers(&mut tools, &FieldList::from_fields(alloc, &VARY)?)?;
    assert!(rt;
        writing.is_ended() && writing.has_waiting(),
        "trailers end it"
    );
    let late = writing.send(&mut tools.spares, b"d", false);
    assert!(rt; late == Err(NotSent::Over), "nothing after the end");
    let wire = b"\x01\x03\x00\x00\xd9\x00\x03abc\x01\x03\x00\x00\xfb";
    assert_taken(&rt, &mut writing, &mut tools, wire, true);
    assert!(rt; !writing.is_done(), "it is kept");
    assert!(rt;
        writing.acked(&mut tools.spares, 15).is_ok(),
        "all of it came"
    );
    assert!(rt; writing.is_done(), "nothing is left to do");
    Ok(())
}

#[test]
fn what_may_not_end_is_not_queued(rt: HostRuntime) -> Result<(), Fail> {
    let alloc = rt.alloc();
    let (id, peer) = (stream(&rt, 0), Peer::new());
    let mut tools = Tools::new(alloc);
    let mut writing = Writing::idle(alloc, KEPT);
    writing.ask(Asked::Other);
    let list = FieldList::from_fields(alloc, &SIZED)?;
    let short = NotSent::Send(SendError::Malformed(Malformed::ContentTooShort));
    let ended = writing.respond(&mut tools, id, peer, &list, true);
    assert!(rt; ended == Err(short), "five bytes are announced");
    assert!(rt; writing.counted() == 0, "nothing is queued");
    writing.respond(&mut tools, id, peer, &list, false)?;
    let before = writing.counted();
    let ended = writing.send(&mut tools.spares, b"four", true);
    assert!(rt; ended == Err(short), "one is missing");
    let owned = Vec::from_slice(alloc, b"sixsix")?;
    if let Err(refused) = writing.send_owned(&mut tools.spares, owned, false) {
        let long = NotSent::Send(SendError::Malformed(Malformed::ContentTooLong));
        assert!(rt; refused.why == long, "one too many");
        assert!(rt;
            refused.bytes.as_slice() == b"sixsix".as_slice(),
            "given back"
        );
    }
    assert!(rt; writing.counted() == before, "nothing is queued");
    writing.send(&mut tools.spares, b"fives", false)?;
    writing.finish()?;
    let wire = b"\x01\x06\x00\x00\xd9\x54\x015\x00\x05fives";
    assert_taken(&rt, &mut writing, &mut tools, wire, true);
    Ok(())
}

#[test]
fn a_section_of_a_request_refers_to_the_table(rt: HostRuntime) -> Result<(), Fail> {
    let alloc = rt.alloc();
    let mut tools = tools(alloc)?;
    let mut writing = Writing::idle(alloc, KEPT);
    let list = FieldList::from_fields(alloc, &SIZED_GET)?;
    let ended = writing.request(&mut tools, stream(&rt, 0), Peer::new(), &list, true);
    let short = NotSent::Send(SendError::Malformed(Malformed::ContentTooShort));
    assert!(rt; ended == Err(short), "five bytes are announced");
    assert!(rt;
        tools.encoder.table().insert_count() == 1,
        "an entry was inserted"
    );
    assert!(rt;
        tools.encoder.unacknowledged() == 0,
        "the section was taken back"
    );
    let list = FieldList::from_fields(alloc, &GET)?;
    writing.request(&mut tools, stream(&rt, 0), Peer::new(), &list, true)?;
    assert!(rt;
        tools.encoder.unacknowledged() == 1,
        "one section refers to it"
    );
    assert_taken(&rt, &mut writing, &mut tools, &REFERS, true);
    let again = writing.request(&mut tools, stream(&rt, 0), Peer::new(), &list, true);
    assert!(rt; again == Err(NotSent::Over), "it ended");
    assert!(rt;
        tools.encoder.unacknowledged() == 1,
        "no other section was encoded"
    );
    Ok(())
}

#[test]
fn a_session_is_drained_and_closed(rt: HostRuntime) -> Result<(), Fail> {
    let alloc = rt.alloc();
    let mut tools = Tools::new(alloc);
    let mut writing = Writing::idle(alloc, KEPT);
    writing.ask(Asked::Session);
    let closed = Err(NotSent::Send(SendError::Unexpected));
    assert!(rt; writing.check_session() == closed, "it is not open");
    let list = FieldList::from_fields(alloc, &OK)?;
    writing.respond(&mut tools, stream(&rt, 4), Peer::new(), &list, false)?;
    assert_taken(
        &rt,
        &mut writing,
        &mut tools,
        b"\x01\x03\x00\x00\xd9",
        false,
    );
    let mut heads = Vec::new(alloc);
    writing.stream_head(false, &mut heads)?;
    writing.stream_head(true, &mut heads)?;
    writing.datagram_head(&mut heads)?;
    assert!(rt;
        heads.as_slice() == b"\x40\x54\x04\x40\x41\x04\x01".as_slice(),
        "its streams and datagrams"
    );
    writing.drain(&mut tools.spares)?;
    assert_taken(
        &rt,
        &mut writing,
        &mut tools,
        b"\x00\x05\x80\x00\x78\xae\x00",
        false,
    );
    writing.close(alloc, &mut tools.spares, 1, "ab")?;
    assert!(rt; writing.check_session() == Err(NotSent::Over), "it is over");
    let close = b"\x00\x09\x68\x43\x06\x00\x00\x00\x01ab";
    assert_taken(&rt, &mut writing, &mut tools, close, true);
    Ok(())
}

#[test]
fn bytes_of_a_session_are_queued_as_they_are(rt: HostRuntime) -> Result<(), Fail> {
    let alloc = rt.alloc();
    let mut tools = Tools::new(alloc);
    let mut writing = Writing::idle(alloc, KEPT);
    writing.belong();
    writing.push(&mut tools.spares, b"\x40\x41\x04")?;
    writing.send_owned(&mut tools.spares, Vec::from_slice(alloc, b"abc")?, false)?;
    assert_taken(&rt, &mut writing, &mut tools, b"\x40\x41\x04abc", false);
    writing.send(&mut tools.spares, b"def", false)?;
    assert!(rt;
        writing.reset(&mut tools.spares, 7, 3),
        "only the head is reliable"
    );
    assert!(rt;
        !writing.has_waiting() && writing.is_ended(),
        "the rest is dropped"
    );
    assert!(rt;
        writing.next_reset().is_some() && writing.reset_sent().is_ok(),
        "QUIC takes it"
    );
    let mut none = Writing::none(alloc, KEPT);
    assert!(rt;
        !none.reset(&mut tools.spares, 7, 0) && none.is_done(),
        "nothing to reset"
    );
    Ok(())
}
