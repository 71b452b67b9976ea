//! The streams of a connection, by what was recorded of them.
use crate::same::assert_same;
use std::alloc::{AllocError, Global};
use wt_inspect_connection::list::{Channel, Entry, Sender};
use wt_inspect_connection::part::Group;
use wt_inspect_connection::piece::{
    Piece, opening_bytes, part_of, purpose_in, session_ids, stream_for,
};
use wt_inspect_connection::purpose::Purpose;

/// What was recorded: a stream of the session 0, whose answer comes first, a datagram of the session
/// 4, and the control stream of the server.
static RECORDED: [(Channel, Sender, &[u8]); 4] = [
    (Channel::Stream(8), Sender::Server, b"\x00\x01x"),
    (Channel::Stream(8), Sender::Client, b"\x40\x41\x00up"),
    (Channel::Datagram, Sender::Server, b"\x01"),
    (Channel::Stream(3), Sender::Server, b"\x00\x04\x00"),
];

/// What was recorded of a server that opened two control streams, which is an error.
static CONTROLS: [(Channel, Sender, &[u8]); 2] = [
    (Channel::Stream(3), Sender::Server, b"\x00\x04\x00"),
    (Channel::Stream(7), Sender::Server, b"\x00\x04\x02\x33\x01"),
];

/// The same in the other order.
static CONTROLS_REVERSED: [(Channel, Sender, &[u8]); 2] = [
    (Channel::Stream(7), Sender::Server, b"\x00\x04\x02\x33\x01"),
    (Channel::Stream(3), Sender::Server, b"\x00\x04\x00"),
];

/// Returns what was recorded as pieces.
fn recorded(alloc: Global) -> Result<Vec<Piece<'static>>, AllocError> {
    pieces_of(alloc, &RECORDED)
}

/// Returns these as pieces.
fn pieces_of(
    alloc: Global,
    recorded: &[(Channel, Sender, &'static [u8])],
) -> Result<Vec<Piece<'static>>, AllocError> {
    let mut pieces = Vec::new(alloc);
    for (channel, sender, bytes) in recorded {
        let entry = Entry {
            channel: *channel,
            sender: *sender,
            file: "a",
            line: 1,
        };
        let bytes = Vec::from_slice(alloc, bytes)?;
        pieces.push(Piece { entry, bytes })?;
    }
    Ok(pieces)
}

#[test]
fn streams_are_known_by_the_end_that_opened_them(rt: HostRuntime) -> Result<(), AllocError> {
    let pieces = recorded(rt.alloc())?;
    let pieces = pieces.as_slice();
    assert_same(&rt, opening_bytes(pieces, 8).len(), 5, "the client's bytes");
    assert_same(&rt, opening_bytes(pieces, 4).len(), 0, "no bytes");
    assert_same(&rt, purpose_in(pieces, 8), Purpose::Session(0), "stream 8");
    assert_same(&rt, purpose_in(pieces, 4), Purpose::Request, "stream 4");
    let control = stream_for(pieces, Sender::Server, Purpose::Control);
    assert_same(&rt, control.is_some(), true, "control stream of the server");
    let control = stream_for(pieces, Sender::Client, Purpose::Control);
    assert_same(
        &rt,
        control.is_some(),
        false,
        "control stream of the client",
    );
    Ok(())
}

#[test]
fn of_two_control_streams_the_first_one_opened_counts(rt: HostRuntime) -> Result<(), AllocError> {
    for (recorded, order) in [
        (&CONTROLS, "the first one first"),
        (&CONTROLS_REVERSED, "the first one last"),
    ] {
        let pieces = pieces_of(rt.alloc(), recorded)?;
        let control = stream_for(pieces.as_slice(), Sender::Server, Purpose::Control);
        assert_same(&rt, control.map(|bytes| bytes.len()), Some(3), order);
    }
    Ok(())
}

#[test]
fn sessions_are_known_by_their_streams_and_datagrams(rt: HostRuntime) -> Result<(), AllocError> {
    let pieces = recorded(rt.alloc())?;
    let pieces = pieces.as_slice();
    let ids = session_ids(rt.alloc(), pieces)?;
    assert_same(&rt, ids.len(), 3, "sessions");
    for (index, piece) in pieces.iter().enumerate() {
        let part = part_of(pieces, index, piece, false);
        let group = match index {
            0 | 1 => Group::Session(0),
            2 => Group::Session(4),
            _ => Group::Control,
        };
        assert_same(&rt, part.group, group, index);
    }
    Ok(())
}
