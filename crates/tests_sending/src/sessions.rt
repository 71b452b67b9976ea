//! The streams, datagrams and capsules of a session.
use crate::messages::{assert_written, list_of, stream};
use crate::same::assert_same;
use std::test::Fail;
use wtp_core::bytes::BufferWriter;
use wtp_fields::fields::FieldList;
use wtp_messages::response::Asked;
use wtp_sending::error::SendError;
use wtp_sending::message::Sending;
use wtp_sending::peer::Peer;

/// `:status: 200`, `:status: 404`.
static ANSWERS: [[u8; 3]; 2] = [[0x00, 0x00, 0xd9], [0x00, 0x00, 0xdb]];

#[test]
fn a_server_opens_a_session_by_its_answer(rt: HostRuntime) -> Result<(), Fail> {
    let alloc = rt.alloc();
    let mut out = Vec::new(alloc);
    let mut sending = Sending::response(stream(&rt, 4), Asked::Session, Peer::new());
    let early = sending.unidirectional(&mut out);
    assert_same(&rt, early, Err(SendError::Unexpected), "before the answer");
    sending.headers(alloc, &list_of(alloc, &ANSWERS[0])?, &mut out)?;
    assert_written(&rt, &mut out, b"\x01\x03\x00\x00\xd9", "the answer");
    sending.unidirectional(&mut out)?;
    assert_written(&rt, &mut out, b"\x40\x54\x04", "a unidirectional stream");
    sending.bidirectional(&mut out)?;
    assert_written(&rt, &mut out, b"\x40\x41\x04", "a bidirectional stream");
    sending.datagram(&mut out)?;
    assert_written(&rt, &mut out, b"\x01", "a datagram");
    let data = sending.data(1, &mut out);
    assert_same(&rt, data, Err(SendError::Unexpected), "DATA of its own");
    Ok(())
}

#[test]
fn a_session_is_drained_and_closed(rt: HostRuntime) -> Result<(), Fail> {
    let alloc = rt.alloc();
    let mut out = Vec::new(alloc);
    let mut sending = Sending::response(stream(&rt, 0), Asked::Session, Peer::new());
    sending.headers(alloc, &list_of(alloc, &ANSWERS[0])?, &mut out)?;
    out.clear();
    sending.drain(&mut out)?;
    assert_written(&rt, &mut out, b"\x00\x05\x80\x00\x78\xae\x00", "DRAIN");
    let mut room = [0; 10];
    let mut short = BufferWriter::new(&mut room);
    let full = sending.close(alloc, 1, "ab", &mut short);
    assert_same(&rt, full, Err(SendError::EndOfBuffer), "no space for CLOSE");
    sending.close(alloc, 1, "ab", &mut out)?;
    let close = b"\x00\x09\x68\x43\x06\x00\x00\x00\x01ab";
    assert_written(&rt, &mut out, close, "CLOSE");
    let late = sending.datagram(&mut out);
    assert_same(&rt, late, Err(SendError::Unexpected), "after CLOSE");
    Ok(())
}

#[test]
fn a_refused_session_has_a_body(rt: HostRuntime) -> Result<(), Fail> {
    let alloc = rt.alloc();
    let mut out = Vec::new(alloc);
    let mut sending = Sending::response(stream(&rt, 0), Asked::Session, Peer::new());
    sending.headers(alloc, &list_of(alloc, &ANSWERS[1])?, &mut out)?;
    let no = sending.check_session();
    assert_same(&rt, no, Err(SendError::Unexpected), "no session");
    sending.data(5, &mut out)?;
    assert_written(&rt, &mut out, b"\x01\x03\x00\x00\xdb\x00\x05", "a body");
    Ok(())
}

#[test]
fn a_client_waits_for_the_answer(rt: HostRuntime) -> Result<(), Fail> {
    let alloc = rt.alloc();
    let mut out = Vec::new(alloc);
    let list = FieldList::request(alloc, "https://example.com/")?;
    let mut plain = Sending::request(
        stream(&rt, 0),
        Peer {
            extended_connect: true,
            ..Peer::new()
        },
    );
    let refused = plain.headers(alloc, &list, &mut out);
    assert_same(&rt, refused, Err(SendError::Unsupported), "no sessions");
    let mut sending = Sending::request(
        stream(&rt, 0),
        Peer {
            extended_connect: true,
            sessions: true,
            ..Peer::new()
        },
    );
    sending.headers(alloc, &list, &mut out)?;
    let early = sending.bidirectional(&mut out);
    assert_same(&rt, early, Err(SendError::Unexpected), "before the answer");
    sending.connected()?;
    out.clear();
    sending.bidirectional(&mut out)?;
    assert_written(&rt, &mut out, b"\x40\x41\x00", "after it");
    let again = sending.connected();
    assert_same(&rt, again, Err(SendError::Unexpected), "connected again");
    Ok(())
}
