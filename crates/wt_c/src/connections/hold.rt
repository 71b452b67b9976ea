//! The bytes of a stream that are held until more of them come, in an array of the caller.
ghost use Rattle.std.specs.Prelude.{◌≡◌, ◌≢◌, ◌+◌, ◌-◌, ◌≤◌, ◌<◌, ◌++◌, ◌==◌, min, length, take, drop, [], MatchBool};
ghost use Rattle.wt_c.specs.Pushing.{IsHold, held_of, Holds, event_in};

use crate::connections::beside::put;
use crate::connections::events::WtEvent;

/// The bytes of a stream that calls left, of an array of the caller.
#[repr(C)]
#[derive(Clone, Copy)]
pub struct WtHold {
    /// Where they begin in the array.
    pub start: usize,
    /// Where they end.
    pub end: usize,
    /// How many bytes of the chunk the last call took.
    pub taken: usize,
    /// Whether the stream ends after the bytes that came: 1 or 0.
    pub fin: u8,
    /// Whether the bytes of the last event are in the array (1) or in the chunk (0).
    pub in_array: u8,
    /// 0.
    pub reserved: [u8; 6],
}

impl WtHold {
    // Returns whether this is a struct of this version, with an array of this size.
    pub(crate) fn is_valid(&self, room: usize) -> bool
        ensures { MatchBool result (IsHold self.now room) (¬ (IsHold self.now room)) }
    {
        self.start <= self.end
            && self.end <= room
            && self.fin <= 1
            && self.in_array <= 1
            && self.reserved == [0; 6]
    }

    // Says that so many bytes at the start of the array are held.
    pub(crate) fn keep(&mut self, held: usize)
        ensures { self.new ≡ record self.old { start = 0; end = held } }
    {
        self.start = 0;
        self.end = held;
    }

    // Moves the bytes that are held to the start of the array, if they are not there. Returns how many
    // they are.
    #[tactic(auto, using(crate::proofs::PushingLemmas::moved))]
    pub(crate) fn gather(&self, room: &mut [u8]) -> usize
        requires { IsHold self.now (length room.old) }
        ensures size { result ≡ length (held_of self.now room.old) }
        ensures within { result ≤ length room.old }
        ensures held { take result room.new ≡ held_of self.now room.old }
    {
        if self.start > 0 {
            room.copy_within(self.start..self.end, 0);
        }
        self.end - self.start
    }

    // Holds what an event of this kind left of a chunk, with which so many bytes of it were
    // consumed.
    fn leave(&mut self, kind: u32, consumed: usize, chunk: &[u8], room: &mut [u8])
        requires within { consumed ≤ length chunk.now }
        requires hold { IsHold self.old (length room.old) }
        ensures holds { Holds [] chunk.now (length room.old) kind consumed self.new room.new }
        ensures place { self.new.in_array ≡ 0 }
        ensures fin { self.new.fin ≡ self.old.fin }
    {
        let left = chunk.split_at(consumed).1;
        self.in_array = 0;
        if kind > 1 || left.len() > room.len() {
            self.keep(0);
            self.taken = consumed;
        } else {
            put(left, room);
            self.keep(left.len());
            self.taken = chunk.len();
        }
    }

    // Holds what an event of this kind left of the first `held` bytes of the array and the first
    // `taken` of the chunk, which follow them there. So many of all were consumed with it.
    fn advance(
        &mut self,
        kind: u32,
        consumed: usize,
        held: usize,
        taken: usize,
        chunk: &[u8],
        room: &[u8],
    )
        requires hold { IsHold self.old (length room.now) }
        requires held { held ≤ length room.now }
        requires taken { taken ≡ min (length chunk.now) (length room.now - held) }
        requires chunk { take (held + taken) room.now
            ≡ take held room.now ++ take taken chunk.now }
        requires within { consumed ≤ held + taken }
        requires kind { kind ≤ 1 → taken < length chunk.now → consumed ≡ 0 }
        ensures holds { Holds (take held room.now) chunk.now (length room.now) kind consumed
            self.new room.now }
        ensures place { self.new.in_array ≡ 1 }
        ensures fin { self.new.fin ≡ self.old.fin }
    {
        self.in_array = 1;
        if kind <= 1 && taken == chunk.len() {
            self.start = consumed;
            self.end = held + taken;
            self.taken = taken;
        } else if consumed <= held {
            self.start = consumed;
            self.end = held;
            self.taken = 0;
        } else {
            self.start = 0;
            self.end = 0;
            self.taken = consumed - held;
        }
    }

    // Holds what an event left of the bytes that were read: those of the chunk if none were held, and
    // otherwise `held` bytes and `taken` of the chunk, which are first in the array.
    pub(crate) fn settle(
        &mut self,
        event: &mut WtEvent,
        held: usize,
        taken: usize,
        chunk: &[u8],
        room: &mut [u8],
    )
        requires hold { IsHold self.old (length room.old) }
        requires held { held ≤ length room.old }
        requires none { held ≡ 0 → taken ≡ length chunk.now }
        requires taken { held ≢ 0 → taken ≡ min (length chunk.now) (length room.old - held) }
        requires chunk { held ≢ 0 → take (held + taken) room.old
            ≡ take held room.old ++ take taken chunk.now }
        requires of_chunk { held ≡ 0 → event.old.consumed ≤ length chunk.now }
        requires of_array { held ≢ 0 → event.old.consumed ≤ held + taken }
        ensures event { event.new ≡ event_in (taken == length chunk.now) event.old }
        ensures holds { Holds (take held room.old) chunk.now (length room.old) event.new.kind
            event.new.consumed self.new room.new }
        ensures chunk { held ≡ 0 → self.new.in_array ≡ 0 }
        ensures array { held ≢ 0 → (self.new.in_array ≡ 1) × (room.new ≡ room.old) }
        ensures fin { self.new.fin ≡ self.old.fin }
    {
        if held == 0 {
            self.leave(event.kind, event.consumed, chunk, room);
            return;
        }
        if taken != chunk.len() && event.kind <= 1 && event.consumed > 0 {
            event.kind = 16;
        }
        self.advance(event.kind, event.consumed, held, taken, chunk, room);
    }
}

// Copies as many bytes of a chunk after the first `held` of the array as it has room for, if some are
// held. Returns how many bytes of the chunk are to be read: these, or all of them.
pub(crate) fn fill(chunk: &[u8], held: usize, room: &mut [u8]) -> usize
    requires { held ≤ length room.old }
    ensures none { held ≡ 0 → result ≡ length chunk.now }
    ensures size { held ≢ 0 → result ≡ min (length chunk.now) (length room.old - held) }
    ensures bytes { held ≢ 0 → take (held + result) room.new
        ≡ take held room.old ++ take result chunk.now }
    ensures held { take held room.new ≡ take held room.old }
    ensures within { result ≤ length chunk.now }
{
    if held == 0 {
        return chunk.len();
    }
    let taken = chunk.len().min(room.len() - held);
    room[held..held + taken].copy_from_slice(&chunk[..taken]);
    taken
}

// Returns the bytes to be read: the chunk if none are held, and otherwise the first `size` of the
// array.
pub(crate) fn read_from<'a>(held: usize, size: usize, chunk: &'a [u8], room: &'a [u8]) -> &'a [u8]
    requires { held ≢ 0 → size ≤ length room.now }
    ensures chunk { held ≡ 0 → result.now ≡ chunk.now }
    ensures array { held ≢ 0 → result.now ≡ take size room.now }
{
    if held == 0 {
        chunk
    } else {
        room.split_at(size).0
    }
}
