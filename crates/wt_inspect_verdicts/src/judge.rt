//! What one end would have said of what the other sent.
ghost use Rattle.std.specs.Prelude.{IfOk};
ghost use Rattle.wt_inspect_verdicts.specs.Findings.{EndOnce};

use crate::case::{Case, is_of_peer, other_end};
use crate::player::Player;
use crate::reading::{Steps, read_insertions, read_steps};
use crate::terms::Terms;
use crate::turn::{Rank, Turn, need_of, rank_of};
use crate::verdict::Verdict;
use std::alloc::{AllocError, Global};
use vesgrauf::Side;
use wt_inspect_connection::list::{Channel, Sender};
use wt_inspect_connection::piece::{Piece, purpose_in, session_ids, stream_for};
use wt_inspect_connection::purpose::Purpose;

/// Returns what the end `by` would have said of what the other end sent in these pieces of a
/// connection, in the order in which it was found. With `is_open` more bytes may follow on each
/// stream; otherwise all but the control streams and those of QPACK ended.
///
/// Returns [`AllocError`] if allocation fails.
pub fn judge(
    alloc: Global,
    pieces: &[Piece<'_>],
    by: Sender,
    is_open: bool,
) -> Result<Vec<Verdict>, AllocError>
    ensures { IfOk result (λ verdicts. EndOnce verdicts.items) }
{
    let peer = other_end(by);
    let terms = Terms::read(alloc, stream_for(pieces, by, Purpose::Control))?;
    let theirs = Terms::read(alloc, stream_for(pieces, peer, Purpose::Control))?;
    let steps = read_steps(alloc, stream_for(pieces, peer, Purpose::Encoder))?;
    let own = stream_for(pieces, by, Purpose::Encoder);
    let sent = read_insertions(alloc, own, theirs.max_table())?;
    let sessions = session_ids(alloc, pieces)?;
    let case = Case {
        alloc,
        pieces,
        by,
        is_open,
        terms,
        sessions: sessions.as_slice(),
        sent: sent.as_ref(),
        has_decoder: read_steps(alloc, own)?.is_without_table(),
    };
    play(&case, steps)
}

/// Plays a connection, whose peer inserts entries into its dynamic table by these steps. Returns what
/// was found.
fn play(case: &Case<'_>, steps: Steps) -> Result<Vec<Verdict>, AllocError>
    ensures { IfOk result (λ verdicts. EndOnce verdicts.items) }
{
    let table = case.terms.table_of(steps.capacity);
    let insertions = steps.insertions;
    let config = case.terms.config(side_of(case.by), table);
    let mut player = Player::new(case.alloc, config, steps)?;
    case.add_streams(&mut player)?;
    case.add_own(&mut player)?;
    case.add_control(&mut player)?;
    if let (Sender::Server, Some(first)) = (case.by, case.terms.goaway) {
        player.leave(first)?;
    }
    let turns = turns_of(case, &player, table, insertions)?;
    play_streams(case, &mut player, turns.as_slice())?;
    play_datagrams(case, &mut player)?;
    play_ends(&mut player, turns.as_slice())?;
    Ok(player.into_verdicts())
}

/// Returns the turns of the streams, in their order.
fn turns_of(
    case: &Case<'_>,
    player: &Player<'_>,
    table: u64,
    insertions: u64,
) -> Result<Vec<Turn>, AllocError> {
    let mut turns = Vec::new(case.alloc);
    let mut before = 0;
    for (id, stream) in player.streams() {
        let need = need_of(stream.count(), table, insertions, before);
        before = need.max(before);
        turns.push(Turn {
            rank: rank_of(*id, purpose_in(case.pieces, *id)),
            need,
            id: *id,
        })?;
    }
    turns.sort()?;
    Ok(turns)
}

/// Reads the streams in their turns, each after the insertions that it needs.
fn play_streams(
    case: &Case<'_>,
    player: &mut Player<'_>,
    turns: &[Turn],
) -> Result<(), AllocError> {
    play_rank(case, player, turns, Rank::Control)?;
    play_rank(case, player, turns, Rank::Unidirectional)?;
    player.ask()?;
    play_rank(case, player, turns, Rank::Message)?;
    player.settle()?;
    play_rank(case, player, turns, Rank::Session)?;
    player.settle()
}

/// Reads the streams of a rank.
fn play_rank(
    case: &Case<'_>,
    player: &mut Player<'_>,
    turns: &[Turn],
    rank: Rank,
) -> Result<(), AllocError> {
    for turn in turns {
        if turn.rank == rank && !is_left_out(case, player, turn.id) {
            player.insert(turn.need)?;
            player.read(turn.id)?;
        }
    }
    Ok(())
}

/// Returns whether a stream belongs to a session that this end could not ask for.
fn is_left_out(case: &Case<'_>, player: &Player<'_>, id: u64) -> bool {
    match purpose_in(case.pieces, id) {
        Purpose::Session(session) => player.is_unasked(session),
        _ => false,
    }
}

/// Takes the datagrams of the peer.
fn play_datagrams(case: &Case<'_>, player: &mut Player<'_>) -> Result<(), AllocError> {
    for (index, piece) in case.pieces.iter().enumerate() {
        if is_of_peer(case.by, piece) && piece.entry.channel == Channel::Datagram {
            player.datagram(index, piece.bytes.as_slice())?;
        }
    }
    Ok(())
}

/// Reads what is left of the streams: that of the messages first, and of the control stream last.
fn play_ends(player: &mut Player<'_>, turns: &[Turn]) -> Result<(), AllocError> {
    for turn in turns.iter().rev() {
        if turn.rank == Rank::Control {
            player.limit(turn.id, usize::MAX);
        }
        player.end(turn.id)?;
    }
    player.insert(u64::MAX)?;
    player.settle()?;
    player.finish()
}

/// Returns the side of an end.
fn side_of(end: Sender) -> Side {
    match end {
        Sender::Client => Side::Client,
        Sender::Server => Side::Server,
    }
}
