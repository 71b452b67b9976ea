//! The IDs of streams (RFC 9000, section 2.1), and of which sessions they are.
ghost use Rattle.std.specs.Prelude.{◌≡◌, None, Some};
ghost use Rattle.vesgrauf.specs.Members.{IsFirstNoted, id_of_session};

use crate::entry::Member;
use crate::output::StreamKind;
use std::alloc::{AllocError, Global};
use std::collections::BTreeSet;
use std::ops::Bound;
use wtp_frames::endpoint::Side;

/// The first number that is no stream ID.
const END: u64 = 1 << 62;

/// The next streams of each kind, and the streams of sessions.
#[derive(Drop)]
pub(crate) struct Ids {
    pub(crate) side: Side,
    /// Own ones.
    pub(crate) bidirectional: u64,
    pub(crate) unidirectional: u64,
    /// Own ones that QUIC is to open.
    pub(crate) unopened_bidirectional: u64,
    pub(crate) unopened_unidirectional: u64,
    /// Whether QUIC opens none for now.
    pub(crate) blocks_bidirectional: bool,
    pub(crate) blocks_unidirectional: bool,
    /// The peer's.
    pub(crate) peer_bidirectional: u64,
    pub(crate) peer_unidirectional: u64,
    /// The streams of sessions.
    members: BTreeSet<Member>,
}

impl Ids {
    ghost use Rattle.std.specs.Prelude.{◌≡◌, ◌<◌, ◌≤◌, ◌^◌, ◌%◌, ◌==◌, ◌&&◌, nat_lt, min, true, false, None, Some, MatchOption, MatchResult, if◌then◌else◌};
    ghost use Rattle.vesgrauf.specs.Members.{IsNextMember, Notes, Drops, is_member as is_member_is};
    ghost use Rattle.vesgrauf.specs.Ids.{IsFirst, own_bit, kind_of, opens, next_own, unopened, next_peer, to_open, taken, opened, seen, was as was_is, blocked as blocked_is, count_unopened as count_unopened_is};

    // Creates those of a connection without streams.
    pub(crate) fn new(alloc: Global, side: Side) -> Self
        ensures { IsFirst side result }
    {
        let (own, peer) = match side {
            Side::Client => (0, 1),
            Side::Server => (1, 0),
        };
        Ids {
            side,
            bidirectional: own,
            unidirectional: own + 2,
            unopened_bidirectional: own,
            unopened_unidirectional: own + 2,
            blocks_bidirectional: false,
            blocks_unidirectional: false,
            peer_bidirectional: peer,
            peer_unidirectional: peer + 2,
            members: BTreeSet::new(alloc),
        }
    }

    // Returns the next own stream of a kind.
    pub(crate) fn next(&self, kind: StreamKind) -> Option<u64>
        ensures { MatchOption result (2 ^ 62 ≤ next_own self.now kind)
            (λ id. (id ≡ next_own self.now kind) × (id < 2 ^ 62)) }
    {
        let id = match kind {
            StreamKind::Bidirectional => self.bidirectional,
            StreamKind::Unidirectional => self.unidirectional,
        };
        if id < END { Some(id) } else { None }
    }

    // The next own stream of a kind is taken, if there is one.
    pub(crate) fn take(&mut self, kind: StreamKind)
        ensures { self.new ≡ (if nat_lt (next_own self.old kind) (2 ^ 62) then taken self.old kind else self.old) }
    {
        match kind {
            StreamKind::Bidirectional => {
                if self.bidirectional < END {
                    self.bidirectional += 4;
                }
            }
            StreamKind::Unidirectional => {
                if self.unidirectional < END {
                    self.unidirectional += 4;
                }
            }
        }
    }

    // Returns whether a stream is one of this endpoint.
    pub(crate) fn is_own(&self, id: u64) -> bool
        ensures { result ≡ (id % 2 == own_bit self.now.side) }
    {
        let bit = match self.side {
            Side::Client => 0,
            Side::Server => 1,
        };
        id % 2 == bit
    }

    // Returns whether an own stream was taken.
    pub(crate) fn was_taken(&self, id: u64) -> bool
        ensures { result ≡ nat_lt id (next_own self.now (kind_of id)) }
    {
        match StreamKind::of(id) {
            StreamKind::Bidirectional => id < self.bidirectional,
            StreamKind::Unidirectional => id < self.unidirectional,
        }
    }

    // Returns whether there was a stream with this ID.
    pub(crate) fn was(&self, id: u64) -> bool
        ensures { result ≡ was_is self.now id }
    {
        if self.is_own(id) {
            self.was_taken(id)
        } else {
            id < self.next_of_peer(id)
        }
    }

    // Returns the stream that QUIC is to open next, if it may.
    pub(crate) fn next_to_open(&self) -> Option<u64>
        ensures { result ≡ to_open self.now }
    {
        if !self.blocks_unidirectional && self.unopened_unidirectional < self.unidirectional {
            return Some(self.unopened_unidirectional);
        }
        if !self.blocks_bidirectional && self.unopened_bidirectional < self.bidirectional {
            return Some(self.unopened_bidirectional);
        }
        None
    }

    // Returns whether this is the next stream of its kind that QUIC is to open.
    pub(crate) fn opens(&self, id: u64) -> bool
        ensures { result ≡ opens self.now id }
    {
        match StreamKind::of(id) {
            StreamKind::Bidirectional => {
                id == self.unopened_bidirectional && id < self.bidirectional
            }
            StreamKind::Unidirectional => {
                id == self.unopened_unidirectional && id < self.unidirectional
            }
        }
    }

    // Returns how many own streams of a kind QUIC is to open.
    pub(crate) fn count_unopened(&self, kind: StreamKind) -> u64
        ensures { result ≡ count_unopened_is self.now kind }
    {
        let left = match kind {
            StreamKind::Bidirectional => self
                .bidirectional
                .saturating_sub(self.unopened_bidirectional),
            StreamKind::Unidirectional => self
                .unidirectional
                .saturating_sub(self.unopened_unidirectional),
        };
        left / 4
    }

    // QUIC has opened the next stream of a kind, which was taken.
    pub(crate) fn was_opened(&mut self, kind: StreamKind)
        ensures { self.new ≡ (if nat_lt (unopened self.old kind) (min (next_own self.old kind) (2 ^ 62))
            then opened self.old kind else self.old) }
    {
        match kind {
            StreamKind::Bidirectional => {
                if self.unopened_bidirectional < self.bidirectional.min(END) {
                    self.unopened_bidirectional += 4;
                }
            }
            StreamKind::Unidirectional => {
                if self.unopened_unidirectional < self.unidirectional.min(END) {
                    self.unopened_unidirectional += 4;
                }
            }
        }
    }

    // QUIC opens no streams of this kind, or does again.
    pub(crate) fn block(&mut self, kind: StreamKind, blocked: bool)
        ensures { self.new ≡ blocked_is self.old kind blocked }
    {
        match kind {
            StreamKind::Bidirectional => self.blocks_bidirectional = blocked,
            StreamKind::Unidirectional => self.blocks_unidirectional = blocked,
        }
    }

    // Returns the first stream of the peer, of the kind of this one, that was not seen.
    pub(crate) fn next_of_peer(&self, id: u64) -> u64
        ensures { result ≡ next_peer self.now (kind_of id) }
    {
        match StreamKind::of(id) {
            StreamKind::Bidirectional => self.peer_bidirectional,
            StreamKind::Unidirectional => self.peer_unidirectional,
        }
    }

    // The next stream of the peer, of this kind, was seen.
    pub(crate) fn see_next(&mut self, kind: StreamKind)
        ensures { self.new ≡ (if nat_lt (next_peer self.old kind) (2 ^ 62) then seen self.old kind else self.old) }
    {
        match kind {
            StreamKind::Bidirectional => {
                if self.peer_bidirectional < END {
                    self.peer_bidirectional += 4;
                }
            }
            StreamKind::Unidirectional => {
                if self.peer_unidirectional < END {
                    self.peer_unidirectional += 4;
                }
            }
        }
    }

    // Returns the first bidirectional stream of the peer that was not seen.
    pub(crate) fn first_unseen(&self) -> u64
        ensures { result ≡ self.now.peer_bidirectional }
    {
        self.peer_bidirectional
    }

    // Notes a stream as one of a session.
    pub(crate) fn note(&mut self, session: u64, id: u64) -> Result<(), AllocError>
        ensures { MatchResult result (λ _. Notes session id self.old self.new) (λ _. self.new ≡ self.old) }
    {
        match self.members.insert(Member { session, id }) {
            Ok(_) => Ok(()),
            Err(_) => Err(AllocError),
        }
    }

    // A stream of a session is forgotten.
    pub(crate) fn forget(&mut self, session: u64, id: u64)
        ensures { Drops session id self.old self.new }
    {
        self.members.remove(&Member { session, id });
    }

    // Returns whether a stream is noted as one of this session.
    pub(crate) fn is_member(&self, session: u64, id: u64) -> bool
        ensures { result ≡ is_member_is self.now session id }
    {
        self.members.contains(&Member { session, id })
    }

    // Returns how many streams of sessions there are.
    pub(crate) fn count_members(&self) -> usize {
        self.members.len()
    }

    // Returns the first stream of a session.
    pub(crate) fn first_member(&self, session: u64) -> Option<u64>
        ensures { IsNextMember self.now session None result }
    {
        of_session(session, first_from(&self.members, session))
    }

    // Returns the first stream of a session whose ID is above this.
    pub(crate) fn member_after(&self, session: u64, id: u64) -> Option<u64>
        ensures { IsNextMember self.now session (Some id) result }
    {
        of_session(session, first_after(&self.members, session, id))
    }
}

// Returns the first stream of this session, or of one after it.
fn first_from(members: &BTreeSet<Member>, session: u64) -> Option<Member>
    ensures { IsFirstNoted members.now.keys session None result }
{
    let first = Member { session, id: 0 };
    members.range(first..).next().copied()
}

// Returns the first stream of this session whose ID is above this, or of a session after it.
fn first_after(members: &BTreeSet<Member>, session: u64, id: u64) -> Option<Member>
    ensures { IsFirstNoted members.now.keys session (Some id) result }
{
    let last = Member { session, id };
    members
        .range((Bound::Excluded(last), Bound::Unbounded))
        .next()
        .copied()
}

// Returns the stream, if it is one of this session.
fn of_session(session: u64, member: Option<Member>) -> Option<u64>
    ensures { result ≡ id_of_session session member }
{
    match member {
        Some(member) if member.session == session => Some(member.id),
        _ => None,
    }
}
