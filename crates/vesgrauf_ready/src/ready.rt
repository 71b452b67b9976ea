//! The streams that are ready to send, and whose turn it is.

ghost use Rattle.std.specs.Prelude.{◌≡◌, ℕ, ◌+◌, ◌<◌, not, ◌&&◌, ◌||◌, [], replicate, MatchOption, MatchResult, slice_set, true};
ghost use Rattle.vesgrauf_ready.specs.declared.rank.Rank.{Rank};
ghost use Rattle.vesgrauf_ready.specs.Ranks.{rank_of, is_same};
ghost use Rattle.vesgrauf_ready.specs.Turns.{is_ready, is_first, has_class, last_id, IsIdle, IsFirst, IsFirstAfter, HasNoneAfter, IsLast, IsLastBefore, HasNoneBefore, IsInClass, IsNext, IsInRound, Joins, Leaves, Moves, after_turn, place};

use crate::rank::{Kind, Rank};
use std::alloc::{AllocError, Global};
use std::collections::BTreeSet;
use std::marker::Model;
use std::ops::Bound;

/// Returns the first of all.
fn first(ranks: &BTreeSet<Rank>) -> Option<Rank>
    ensures { MatchOption result (IsIdle ranks.now.keys) (IsFirst ranks.now.keys) }
{
    ranks.first().copied()
}

/// Returns the last of all.
fn last(ranks: &BTreeSet<Rank>) -> Option<Rank>
    ensures { MatchOption result (IsIdle ranks.now.keys) (IsLast ranks.now.keys) }
{
    ranks.last().copied()
}

/// Returns the last that comes before this place.
fn last_before(ranks: &BTreeSet<Rank>, end: Rank) -> Option<Rank>
    ensures { MatchOption result (HasNoneBefore ranks.now.keys end)
        (IsLastBefore ranks.now.keys end) }
{
    ranks.range(..end).next_back().copied()
}

/// Returns whether a place is taken.
fn has(ranks: &BTreeSet<Rank>, rank: &Rank) -> bool
    ensures { result ≡ is_ready rank.now ranks.now.keys }
{
    ranks.contains(rank)
}

/// Adds a place.
fn add(ranks: &mut BTreeSet<Rank>, rank: Rank) -> Result<(), AllocError>
    ensures { MatchResult result (λ _. (y : Rank) → is_ready y ranks.new.keys
        ≡ (is_same rank y || is_ready y ranks.old.keys)) (λ _. ranks.new.keys ≡ ranks.old.keys) }
{
    match ranks.insert(rank) {
        Ok(_) => Ok(()),
        Err(_) => Err(AllocError),
    }
}

/// Takes a place out.
fn take_out(ranks: &mut BTreeSet<Rank>, rank: Rank)
    ensures { (y : Rank) → is_ready y ranks.new.keys
        ≡ (not (is_same rank y) && is_ready y ranks.old.keys) }
{
    ranks.remove(&rank);
}

/// Returns the first that comes after this place.
fn first_after(ranks: &BTreeSet<Rank>, mark: Rank) -> Option<Rank>
    ensures { MatchOption result (HasNoneAfter ranks.now.keys mark)
        (IsFirstAfter ranks.now.keys mark) }
{
    ranks
        .range((Bound::Excluded(mark), Bound::Unbounded))
        .next()
        .copied()
}

/// Returns whether none comes before this place.
fn is_first(ranks: &BTreeSet<Rank>, rank: &Rank) -> bool
    ensures { result ≡ is_first rank.now ranks.now.keys }
{
    match first(ranks) {
        Some(first) => !first.is_before(rank),
        None => true,
    }
}

/// Returns whether one of the class is ready.
fn has_class(ranks: &BTreeSet<Rank>, class: u8) -> bool
    requires { class < 17 }
    ensures { result ≡ has_class class ranks.now.keys }
{
    match last_before(
        ranks,
        Rank {
            class: class + 1,
            id: 0,
        },
    ) {
        Some(last) => last.class == class,
        None => false,
    }
}

/// Returns the ID of the last of the class, or 0 if there is none.
fn last_id(ranks: &BTreeSet<Rank>, class: u8) -> u64
    requires { class < 17 }
    ensures { result ≡ last_id class ranks.now.keys }
{
    match last_before(
        ranks,
        Rank {
            class: class + 1,
            id: 0,
        },
    ) {
        Some(last) if last.class == class => last.id,
        _ => 0,
    }
}

/// Returns whose turn it is in the round of a class, whose first stream is the first of all.
fn next_of_class(ranks: &BTreeSet<Rank>, first: Rank, mark: u64, end: u64) -> Rank
    ensures { IsInClass ranks.now.keys first mark end result }
{
    let class = first.class;
    match first_after(ranks, Rank { class, id: mark }) {
        Some(rank) if !(Rank { class, id: end }.is_before(&rank)) => rank,
        _ => first,
    }
}

/// The streams that have something to be sent and may send it, in the order of RFC 9218, section 10:
/// critical streams first, then by urgency; of one urgency those that are not incremental by their IDs,
/// and then the incremental ones in rounds, from the lowest ID to the highest.
///
/// A caller inserts a stream once it has something to be sent and is not blocked, removes it once it has
/// nothing or is blocked, sends from the stream that [`next`](Ready::next) returns, and then says so by
/// [`turn_taken`](Ready::turn_taken). One turn of `fair` goes round all streams, so that none starves:
/// from the last to the first, so that each other stream goes before one that waits at most once, and
/// those that come later wait for the next round. Turns are counted from when no stream was ready.
#[derive(Drop)]
pub struct Ready {
    ranks: BTreeSet<Rank>,
    marks: [u64; 17],
    ends: [u64; 17],
    round: Rank,
    left: u64,
    fair: u64,
}

// Contracts treat it as the places of the streams that are ready, where the rounds are, and after how
// many turns the next one is of the round of all.
impl Model for Ready {
    ghost use Rattle.std.specs.Prelude.{◌≡◌, ◌<◌, ◌≤◌, true};
    ghost use Rattle.vesgrauf_ready.specs.declared.rank.Rank.{Rank};
    ghost use Rattle.vesgrauf_ready.specs.Turns.{State, is_ready};

    ghost Value = { State };

    ghost view = { λ s. record {
      ranks = s.ranks.keys;
      marks = s.marks;
      ends = s.ends;
      round = s.round;
      left = s.left;
      fair = s.fair;
    } };

    ghost invariant = { λ s. (0 < s.left) × (s.left ≤ s.fair)
        × ((y : Rank) → is_ready y s.ranks.keys ≡ true → y.class < 17) };
}

impl Ready {
    /// Creates an order without streams, in which one turn of `fair` goes round all streams. Nothing is
    /// allocated.
    pub fn new(alloc: Global, fair: u64) -> Self
        requires { 0 < fair }
        ensures { result ≡ record {
          ranks = [];
          marks = replicate 17 0;
          ends = replicate 17 0;
          round = place 0 0;
          left = fair;
          fair = fair;
        } }
    {
        Ready {
            ranks: BTreeSet::new(alloc),
            marks: [0; 17],
            ends: [0; 17],
            round: Rank { class: 0, id: 0 },
            left: fair,
            fair,
        }
    }

    /// A stream has something to be sent, and may send it. If it was ready before, nothing changes.
    ///
    /// Returns [`AllocError`] if allocation failed; nothing has changed then.
    pub fn insert(&mut self, id: u64, kind: Kind) -> Result<(), AllocError>
        ensures { MatchResult result (λ _. Joins (rank_of id kind) self.old self.new)
            (λ _. self.new ≡ self.old) }
    {
        let rank = Rank::new(id, kind);
        let ends_round = rank.is_shared() && !has_class(&self.ranks, rank.class);
        let is_idle = self.ranks.len() == 0;
        add(&mut self.ranks, rank)?;
        if ends_round {
            self.ends[rank.class as usize] = 0;
        }
        if is_idle {
            self.left = self.fair;
        }
        Ok(())
    }

    /// A stream has nothing to be sent, or may not send it. If it was not ready, nothing changes.
    pub fn remove(&mut self, id: u64, kind: Kind)
        ensures { Leaves (rank_of id kind) self.old self.new }
    {
        take_out(&mut self.ranks, Rank::new(id, kind));
    }

    /// Changes what a stream is for, or its priority. If it was not ready, nothing changes.
    ///
    /// Returns [`AllocError`] if allocation failed; nothing has changed then.
    pub fn change(&mut self, id: u64, from: Kind, to: Kind) -> Result<(), AllocError>
        ensures { MatchResult result (λ _. Moves (rank_of id from) (rank_of id to) self.old self.new)
            (λ _. self.new ≡ self.old) }
    {
        let old = Rank::new(id, from);
        let new = Rank::new(id, to);
        if !has(&self.ranks, &old) || old.is_same(&new) {
            return Ok(());
        }
        self.insert(id, to)?;
        self.remove(id, from);
        Ok(())
    }

    /// Returns the stream whose turn it is, or `None` if none is ready. It is the same until a stream
    /// becomes ready, is removed, or takes a turn.
    pub fn next(&self) -> Option<u64>
        ensures { MatchOption result (IsIdle self.now.ranks)
            (λ id. (x : Rank) × (x.id ≡ id) × IsNext self.now x) }
    {
        match self.choose() {
            Some(rank) => Some(rank.id),
            None => None,
        }
    }

    // Returns the place of the stream whose turn it is.
    fn choose(&self) -> Option<Rank>
        ensures { MatchOption result (IsIdle self.now.ranks) (IsNext self.now) }
    {
        if self.left == 1 {
            return self.next_of_all();
        }
        let Some(first) = first(&self.ranks) else {
            return None;
        };
        if !first.is_shared() {
            return Some(first);
        }
        let class = first.class as usize;
        Some(next_of_class(&self.ranks, first, self.marks[class], self.ends[class]))
    }

    // Returns whose turn it is in the round of all.
    fn next_of_all(&self) -> Option<Rank>
        ensures { MatchOption result (IsIdle self.now.ranks) (IsInRound self.now) }
    {
        match last_before(&self.ranks, self.round) {
            Some(rank) => Some(rank),
            None => last(&self.ranks),
        }
    }

    /// A stream took a turn: something of it was sent.
    pub fn turn_taken(&mut self, id: u64, kind: Kind)
        ensures { self.new ≡ after_turn (rank_of id kind) self.old }
    {
        let rank = Rank::new(id, kind);
        if self.left == 1 {
            self.round = rank;
            self.left = self.fair;
            return;
        }
        if rank.is_shared() {
            self.marks[rank.class as usize] = rank.id;
            if is_first(&self.ranks, &rank) {
                self.ends[rank.class as usize] = last_id(&self.ranks, rank.class);
            }
        }
        self.left -= 1;
    }
}
