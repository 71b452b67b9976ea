//! What streams are for, and where they are shown, by rows (RFC 9000, section 2.1; RFC 9114, section
//! 6; RFC 9204, section 4.2; draft-ietf-webtrans-http3-02, section 4).
use crate::same::assert_same;
use std::alloc::{AllocError, Global};
use wt_inspect_connection::list::Sender;
use wt_inspect_connection::part::{
    Group, Part, Role, group_of, group_of_datagram, in_order, role_of,
};
use wt_inspect_connection::purpose::{Purpose, purpose_of};

/// The ID of a stream, its first bytes, and what it is for.
static PURPOSES: [(u64, &[u8], Purpose); 20] = [
    (0, b"", Purpose::Request),
    (4, b"\x01\x02\x00\x00", Purpose::Request),
    (0, b"\x40\x41\x00", Purpose::Session(0)),
    (1, b"\x40\x41\x04hello", Purpose::Session(4)),
    (1, b"\x80\x00\x00\x41\x08", Purpose::Session(8)),
    (0, b"\x40\x41\x01", Purpose::Other),
    (0, b"\x40\x41", Purpose::Other),
    (1, b"", Purpose::Other),
    (5, b"\x01\x02\x00\x00", Purpose::Other),
    (2, b"\x00\x04\x00", Purpose::Control),
    (3, b"\x40\x00", Purpose::Control),
    (3, b"\x01\x00", Purpose::Push),
    (6, b"\x02", Purpose::Encoder),
    (7, b"\x03", Purpose::Decoder),
    (10, b"\x40\x54\x00", Purpose::Session(0)),
    (11, b"\x40\x54\x40\x64x", Purpose::Session(100)),
    (11, b"\x40\x54\x02", Purpose::Other),
    (11, b"\x40\x54", Purpose::Other),
    (2, b"\x21", Purpose::Other),
    (2, b"", Purpose::Other),
];

/// The bytes of a datagram, and where it is shown (RFC 9297, section 2.1).
static DATAGRAMS: [(&[u8], Group); 5] = [
    (b"\x00", Group::Session(0)),
    (b"\x03hi", Group::Session(12)),
    (
        b"\xcf\xff\xff\xff\xff\xff\xff\xff",
        Group::Session(4611686018427387900),
    ),
    (b"\xd0\x00\x00\x00\x00\x00\x00\x00", Group::Other),
    (b"", Group::Other),
];

#[test]
fn streams_have_their_purpose(rt: HostRuntime) {
    for (id, bytes, purpose) in &PURPOSES {
        assert_same(&rt, purpose_of(*id, bytes), *purpose, *id);
    }
}

#[test]
fn datagrams_are_shown_with_their_session(rt: HostRuntime) {
    for (bytes, group) in &DATAGRAMS {
        assert_same(&rt, group_of_datagram(bytes), *group, bytes.len());
    }
}

/// Returns the part of a stream.
fn part(id: u64, opens: bool, purpose: Purpose, sender: Sender, index: usize) -> Part {
    Part {
        group: group_of(id, opens, purpose),
        role: role_of(purpose),
        id,
        sender,
        index,
    }
}

/// Returns parts in their order.
fn sort_once(alloc: Global, parts: &[Part]) -> Result<Vec<Part>, AllocError> {
    in_order(Vec::from_slice(alloc, parts)?)
}

#[test]
fn parts_are_in_order(rt: HostRuntime) {
    let alloc = rt.alloc();
    let parts = [
        part(12, false, Purpose::Other, Sender::Client, 0),
        part(8, false, Purpose::Request, Sender::Server, 1),
        part(8, false, Purpose::Request, Sender::Client, 2),
        part(2, false, Purpose::Session(4), Sender::Client, 3),
        part(4, true, Purpose::Request, Sender::Client, 4),
        part(7, false, Purpose::Encoder, Sender::Server, 5),
        part(2, false, Purpose::Control, Sender::Client, 6),
    ];
    let sorted = match sort_once(alloc, &parts) {
        Ok(sorted) => Ok(sorted),
        Err(_) => sort_once(alloc, &parts),
    };
    match sorted {
        Ok(sorted) => {
            for (part, index) in sorted.iter().zip(&[6, 5, 4, 3, 2, 1, 0]) {
                assert_same(&rt, part.index, *index, "place");
            }
            assert_same(&rt, sorted.len(), 7, "parts");
        }
        Err(_) => assert_same(&rt, "no memory", "parts", "order"),
    }
}
