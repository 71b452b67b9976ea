//! The parts of a connection, and their order.
ghost use Rattle.std.specs.List.Sorted.{IsPermutation, IsSortedBy};
ghost use Rattle.std.specs.Prelude.{◌≡◌, IfOk};
ghost use Rattle.wtp_core.specs.Varint.{number_at};
ghost use Rattle.wt_inspect_connection.specs.Parts.{group_by_quarter, group_of, is_before, is_same_group, role_of};

use crate::list::Sender;
use crate::purpose::Purpose;
use std::alloc::AllocError;
use wtp_core::varint::first_varint;

/// One more than the largest quarter stream ID (RFC 9297, section 2.1).
const MAX_QUARTER: u64 = 1 << 60;

/// Where a part is shown, in the order of the variants.
#[derive(Clone, Copy, Debug, PartialEq, Eq, PartialOrd, Ord)]
pub enum Group {
    /// With the control streams.
    Control,
    /// With the encoder and decoder streams of QPACK.
    Qpack,
    /// With the session that has this ID.
    Session(u64),
    /// With the request on the stream with this ID.
    Request(u64),
    /// With the rest.
    Other,
}

/// What a part is in its group, in the order of the variants.
#[derive(Clone, Copy, Debug, PartialEq, Eq, PartialOrd, Ord)]
pub enum Role {
    /// A request or its response.
    Message,
    /// A stream.
    Stream,
    /// A datagram.
    Datagram,
}

/// A part of a connection: one direction of a stream, or a datagram. Parts are in order by their
/// fields, from the first one on.
#[derive(Clone, Copy, Debug, PartialEq, Eq, PartialOrd, Ord)]
pub struct Part {
    /// Where it is shown.
    pub group: Group,
    /// What it is there.
    pub role: Role,
    /// The ID of the stream, or 0 of a datagram.
    pub id: u64,
    /// The end that sent it.
    pub sender: Sender,
    /// Its place in the list.
    pub index: usize,
}

/// Returns where a stream is shown. `opens_session` says whether a session has its ID.
pub fn group_of(id: u64, opens_session: bool, purpose: Purpose) -> Group
    ensures { result ≡ group_of id «opens_session» purpose }
{
    match purpose {
        Purpose::Control => Group::Control,
        Purpose::Encoder | Purpose::Decoder => Group::Qpack,
        Purpose::Session(session) => Group::Session(session),
        Purpose::Request if opens_session => Group::Session(id),
        Purpose::Request => Group::Request(id),
        Purpose::Push | Purpose::Other => Group::Other,
    }
}

/// Returns what a stream is in its group.
pub fn role_of(purpose: Purpose) -> Role
    ensures { result ≡ role_of purpose }
{
    match purpose {
        Purpose::Request => Role::Message,
        _ => Role::Stream,
    }
}

/// Returns where a datagram is shown, which begins with its session ID divided by 4 (RFC 9297,
/// section 2.1).
pub fn group_of_datagram(bytes: &[u8]) -> Group
    ensures { result ≡ group_by_quarter (number_at bytes.now) }
{
    match first_varint(bytes) {
        Some((quarter, _)) if quarter.into_inner() < MAX_QUARTER => {
            Group::Session(4 * quarter.into_inner())
        }
        _ => Group::Other,
    }
}

/// Returns whether both are the same.
pub fn is_same_group(one: Group, other: Group) -> bool
    ensures { result ≡ is_same_group one other }
{
    match (one, other) {
        (Group::Control, Group::Control)
        | (Group::Qpack, Group::Qpack)
        | (Group::Other, Group::Other) => true,
        (Group::Session(one), Group::Session(other))
        | (Group::Request(one), Group::Request(other)) => one == other,
        _ => false,
    }
}

/// Returns the same parts in their order: by group, role, ID, sender, and place in the list.
///
/// Returns [`AllocError`] if allocation fails.
#[tactic(auto, using(crate::proofs::OrderLemmas::sorted_before))]
pub fn in_order(parts: Vec<Part>) -> Result<Vec<Part>, AllocError>
    ensures same { IfOk result (λ sorted. IsPermutation parts.items sorted.items) }
    ensures order { IfOk result (λ sorted. IsSortedBy is_before sorted.items) }
{
    let mut parts = parts;
    parts.sort()?;
    Ok(parts)
}
