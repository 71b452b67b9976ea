//! The sessions of a connection, and where its parts are shown.

ghost use Rattle.std.specs.List.Sorted.{IsPermutation, IsSortedBy};
ghost use Rattle.std.specs.Prelude.{◌≡◌, true, IfOk, option_map};
ghost use Rattle.wt_inspect.specs.Connections.{AreSessions, OpensBy, is_session, opening_of};
ghost use Rattle.wt_inspect.specs.Connections.{opens_on, parts_from};
ghost use Rattle.wt_inspect_connection.specs.Parts.{is_before};
ghost use Rattle.wt_inspection.specs.Items.{input_with};
ghost use Rattle.wt_inspection.specs.declared.reading.Recorded.TheVariants.{Bi};

use std::alloc::{AllocError, Global};
use wt_inspect_connection::list::Channel;
use wt_inspect_connection::part::{Part, in_order};
use wt_inspect_connection::piece::{Piece, part_of, purpose_in, session_ids};
use wt_inspect_connection::purpose::Purpose;
use wt_inspection::item::Parts;
use wt_inspection::{Content, Insertions, Inspecting, Item, Recorded, request_opens};

/// Returns the IDs of the sessions of a connection: those that a stream or a datagram names, and those
/// of the requests that open one. `sent` is the client's encoder stream, if it is known.
pub(super) fn sessions_in(
    alloc: Global,
    pieces: &[Piece<'_>],
    sent: Option<&Insertions<'_>>,
) -> Result<Vec<u64>, AllocError>
    ensures { IfOk result (λ ids. AreSessions pieces.now ids.items) }
{
    let mut ids = session_ids(alloc, pieces)?;
    for piece in pieces {
        match opened_by(alloc, pieces, piece, sent)? {
            Some(id) => ids.push(id)?,
            None => {}
        }
    }
    Ok(ids)
}

/// Returns the ID of the session that a piece opens, if it is a request that does.
fn opened_by(
    alloc: Global,
    pieces: &[Piece<'_>],
    piece: &Piece<'_>,
    sent: Option<&Insertions<'_>>,
) -> Result<Option<u64>, AllocError> {
    match piece.entry.channel {
        Channel::Stream(id) if is_request(pieces, piece, id) => {
            let opens = opens_session(alloc, piece.bytes.as_slice(), sent)?;
            Ok(if opens { Some(id) } else { None })
        }
        _ => Ok(None),
    }
}

/// Returns whether a piece is what the client sent on a request stream.
fn is_request(pieces: &[Piece<'_>], piece: &Piece<'_>, id: u64) -> bool {
    piece.entry.sender.has_opened(id) && purpose_in(pieces, id) == Purpose::Request
}

/// Returns whether the first header section of a request opens a session.
fn opens_session(
    alloc: Global,
    bytes: &[u8],
    sent: Option<&Insertions<'_>>,
) -> Result<bool, AllocError>
    ensures { IfOk result (λ opens. OpensBy (input_with Bi true bytes.now
        (option_map (λ i. i.now) sent.entry)) opens) }
{
    let mut items = Inspecting::new(alloc, Recorded::Bi, bytes, true, sent);
    'items: loop {
        let next = items.next()?;
        match next {
            Some(item) => match opening_in(item) {
                Some(opens) => return Ok(opens),
                None => {}
            },
            None => return Ok(false),
        }
    }
}

/// Returns whether a header section opens a session, or `None` if the item has none.
fn opening_in(item: Item) -> Option<bool>
    ensures { result ≡ opening_of item.content }
{
    opening_of(&item.content)
}

/// Returns whether a header section opens a session, or `None` if the contents have none.
fn opening_of(content: &Content) -> Option<bool>
    ensures { result ≡ opening_of content.now }
{
    match content {
        Content::Frame(frame) => match &frame.parts {
            Parts::Fields(section) => Some(request_opens(section)),
            _ => None,
        },
        _ => None,
    }
}

/// Returns whether one of the sessions has this ID.
pub(super) fn is_session(sessions: &[u64], id: u64) -> bool
    ensures { result ≡ is_session sessions.now id }
{
    sessions.contains(&id)
}

/// Returns the parts of a connection in their order.
pub(super) fn parts_in(
    alloc: Global,
    pieces: &[Piece<'_>],
    sessions: &[u64],
) -> Result<Vec<Part>, AllocError>
    ensures same { IfOk result (λ parts. IsPermutation
        (parts_from 0 pieces.now sessions.now pieces.now) parts.items) }
    ensures order { IfOk result (λ parts. IsSortedBy is_before parts.items) }
{
    let mut parts = Vec::new(alloc);
    let mut index = 0;
    for piece in pieces {
        let opens_session = is_of_session(sessions, piece);
        parts.push(part_of(pieces, index, piece, opens_session))?;
        index += 1;
    }
    in_order(parts)
}

/// Returns whether a session has the ID of the stream of a piece.
fn is_of_session(sessions: &[u64], piece: &Piece<'_>) -> bool
    ensures { result ≡ opens_on sessions.now piece.now.entry.channel }
{
    match piece.entry.channel {
        Channel::Stream(id) => is_session(sessions, id),
        Channel::Datagram => false,
    }
}
