//! What was recorded of a connection: the entries of a list, and the bytes of their files.
ghost use Rattle.std.specs.Prelude.{◌≡◌, IfOk, option_map};
ghost use Rattle.wt_inspect_connection.specs.Pieces.{is_opening, opening_bytes, part_of, purpose_in};
ghost use Rattle.wt_inspect_connection.specs.Pieces.{session_in_group, session_in_purpose, session_of};
ghost use Rattle.wt_inspect_connection.specs.Pieces.{first_of, is_same_critical, sent_for, session_ids};
ghost use Rattle.wt_inspect_connection.specs.Pieces.{stream_for};

use crate::list::{Channel, Entry, Sender, is_same_sender};
use crate::part::{Group, Part, Role, group_of, group_of_datagram, role_of};
use crate::purpose::{Purpose, purpose_of};
use std::alloc::{AllocError, Global};

/// An entry of a list, and the bytes of its file.
#[derive(Drop)]
pub struct Piece<'a> {
    /// What was sent, and by which end.
    pub entry: Entry<'a>,
    /// The bytes that it sent there.
    pub bytes: Vec<u8>,
}

/// Returns what the end that opened a stream sent on it, which are no bytes if it was not recorded.
pub fn opening_bytes<'p>(pieces: &'p [Piece<'_>], id: u64) -> &'p [u8]
    ensures { result.now ≡ opening_bytes id pieces.now }
{
    for piece in pieces {
        if is_opening(id, piece) {
            return piece.bytes.as_slice();
        }
    }
    &[]
}

/// Returns whether a piece is what the end that opened a stream sent on it.
fn is_opening(id: u64, piece: &Piece<'_>) -> bool
    ensures { result ≡ is_opening id piece.now }
{
    match piece.entry.channel {
        Channel::Stream(other) => other == id && piece.entry.sender.has_opened(id),
        Channel::Datagram => false,
    }
}

/// Returns what a stream of a connection is for.
pub fn purpose_in(pieces: &[Piece<'_>], id: u64) -> Purpose
    ensures { result ≡ purpose_in pieces.now id }
{
    purpose_of(id, opening_bytes(pieces, id))
}

/// Returns what an end sent on its stream for this, a control stream or one of QPACK, or `None` if
/// that was not recorded. If the end opened several, which is an error, the one with the lowest ID
/// counts, which was opened first (RFC 9000, section 2.1).
#[tactic(auto, using(crate::proofs::PieceLemmas::first_assoc, crate::proofs::PieceLemmas::first_alone))]
pub fn stream_for<'p>(pieces: &'p [Piece<'_>], sender: Sender, purpose: Purpose) -> Option<&'p [u8]>
    ensures { option_map (λ bytes. bytes.now) result ≡ stream_for sender purpose pieces.now }
{
    let mut first = None;
    for piece in pieces {
        first = first_of(first, sent_for(sender, purpose, piece));
    }
    let (_, bytes) = first?;
    Some(bytes)
}

/// Returns the one with the lower ID of two streams, each with its ID and its bytes.
fn first_of<'p>(
    one: Option<(u64, &'p [u8])>,
    other: Option<(u64, &'p [u8])>,
) -> Option<(u64, &'p [u8])>
    ensures { option_map (λ s. (s.0, s.1.now)) result
        ≡ first_of (option_map (λ s. (s.0, s.1.now)) one.entry)
        (option_map (λ s. (s.0, s.1.now)) other.entry) }
{
    match (one, other) {
        (Some((one_id, _)), Some((other_id, _))) if other_id < one_id => other,
        (None, _) => other,
        _ => one,
    }
}

/// Returns the ID of an end's stream for this, and what it sent there, if a piece is that.
fn sent_for<'p>(sender: Sender, purpose: Purpose, piece: &'p Piece<'_>) -> Option<(u64, &'p [u8])>
    ensures { option_map (λ s. (s.0, s.1.now)) result ≡ sent_for sender purpose piece.now }
{
    let bytes = piece.bytes.as_slice();
    match piece.entry.channel {
        Channel::Stream(id)
            if is_same_sender(piece.entry.sender, sender)
                && is_same_critical(purpose_of(id, bytes), purpose) => { Some((id, bytes)) }
        _ => None,
    }
}

/// Returns whether both are the same, and a control stream or one of QPACK.
fn is_same_critical(one: Purpose, other: Purpose) -> bool
    ensures { result ≡ is_same_critical one other }
{
    match (one, other) {
        (Purpose::Control, Purpose::Control)
        | (Purpose::Encoder, Purpose::Encoder)
        | (Purpose::Decoder, Purpose::Decoder) => true,
        _ => false,
    }
}

/// Returns the ID of the session that a stream or datagram of a connection belongs to, by what it
/// begins with, or `None` if it does not say so.
pub fn session_of(pieces: &[Piece<'_>], piece: &Piece<'_>) -> Option<u64>
    ensures { result ≡ session_of pieces.now piece.now }
{
    match piece.entry.channel {
        Channel::Stream(id) => session_in_purpose(purpose_in(pieces, id)),
        Channel::Datagram => session_in_group(group_of_datagram(piece.bytes.as_slice())),
    }
}

/// Returns the ID of the session that a stream is of.
fn session_in_purpose(purpose: Purpose) -> Option<u64>
    ensures { result ≡ session_in_purpose purpose }
{
    match purpose {
        Purpose::Session(id) => Some(id),
        _ => None,
    }
}

/// Returns the ID of the session that a part is shown with.
fn session_in_group(group: Group) -> Option<u64>
    ensures { result ≡ session_in_group group }
{
    match group {
        Group::Session(id) => Some(id),
        _ => None,
    }
}

/// Returns the IDs of the sessions that the streams and datagrams of a connection belong to.
///
/// Returns [`AllocError`] if allocation fails.
pub fn session_ids(alloc: Global, pieces: &[Piece<'_>]) -> Result<Vec<u64>, AllocError>
    ensures { IfOk result (λ ids. ids.items ≡ session_ids pieces.now pieces.now) }
{
    let mut ids = Vec::new(alloc);
    for piece in pieces {
        match session_of(pieces, piece) {
            Some(id) => ids.push(id)?,
            None => {}
        }
    }
    Ok(ids)
}

/// Returns where a piece of a connection, with this place in the list, is shown. `opens_session` says
/// whether a session has the ID of its stream.
pub fn part_of(pieces: &[Piece<'_>], index: usize, piece: &Piece<'_>, opens_session: bool) -> Part
    ensures { result ≡ part_of pieces.now index piece.now «opens_session» }
{
    let sender = piece.entry.sender;
    match piece.entry.channel {
        Channel::Stream(id) => {
            let purpose = purpose_in(pieces, id);
            Part {
                group: group_of(id, opens_session, purpose),
                role: role_of(purpose),
                id,
                sender,
                index,
            }
        }
        Channel::Datagram => Part {
            group: group_of_datagram(piece.bytes.as_slice()),
            role: Role::Datagram,
            id: 0,
            sender,
            index,
        },
    }
}
