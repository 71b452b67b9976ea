//! Reading the capsules of a stream's data, piece by piece.
ghost use Rattle.std.specs.Prelude.{◌≡◌, ◌-◌, ◌<◌, ◌≤◌, ◌++◌, ◌↔◌, List, ℕ, [], length, take, drop, true, false, vec_len, vec_capacity, IsTrue, IsOk, Ok, OnErr, MatchOption, nat_lt};
ghost use Rattle.wtp_wire.specs.CapsuleFront.{End, max_value_len};
ghost use Rattle.wtp_wire.specs.CapsuleStream.{NextGiven, capsules_held, next_held, with_result};
ghost use Rattle.wtp_wire.specs.CapsuleSteps.{Advanced, HasRoom, IsPart, Stepped, head_says, holding};
ghost use Rattle.wtp_wire.specs.FrameNeed.{frame_need};
ghost use Rattle.wtp_wire.specs.Held.{Held, new_held};

use crate::capsule::{Capsule, CapsuleError, CapsuleKind, CapsuleOwned};
use crate::frame::head::FramePrefix;
use crate::head::first_pair;
use std::alloc::{AllocError, Global};
use std::borrow::CowSlice;
use std::marker::Model;
use std::{fmt, mem};
use wtp_core::polling::head::fill_prefix;
use wtp_core::varint::VarInt;

/// The data ended within a capsule.
#[derive(Debug, Drop, PartialEq, Eq, thiserror::Error)]
#[error("data ends within a capsule")]
pub struct TruncatedCapsule;

/// Reads the capsules of known kinds from the data of a stream, which are the payloads of its DATA
/// frames, cut anywhere (RFC 9297, section 3.2).
///
/// It skips capsules of unknown types, which take no memory. The memory for the value of another is
/// allocated before its first byte; its length has a limit: `CapsuleKind::max_value_len`.
#[derive(Drop)]
pub struct CapsuleReading {
    alloc: Global,
    part: CapsulePart,
}

/// The part of a capsule that is held, and how many bytes of an unknown one are still to be
/// skipped.
#[derive(Drop)]
struct CapsulePart {
    // The type and the length, of which `len` bytes are held.
    head: [u8; 16],
    len: usize,
    // The bytes that are held of a value.
    value: Vec<u8>,
    skip_remaining: u64,
}

// The number of bytes held, and the number of bytes still to be skipped.
impl fmt::Debug for CapsuleReading {
    fn fmt<W: fmt::Write>(&self, f: &mut fmt::Formatter<W>) -> fmt::Result {
        f.debug_struct("CapsuleReading")
            .field("head_bytes", &self.part.len)
            .field("value_bytes", &self.part.value.len())
            .field("due_bytes", &self.part.skip_remaining)
            .finish_non_exhaustive()
    }
}

impl Model for CapsuleReading {
    ghost Value = { Held };

    ghost view = { λ s.
        holding (take s.part.len s.part.head) s.part.value.items s.part.skip_remaining };

    ghost invariant = { λ s. (length s.part.head ≡ 16) × (s.part.len ≤ 16)
        × IsPart (take s.part.len s.part.head) s.part.value.items s.part.skip_remaining
        × HasRoom (head_says (take s.part.len s.part.head)) (vec_len s.part.value)
        (vec_capacity s.part.value) };
}

impl CapsuleReading {
    /// Creates a reading that has read nothing.
    pub fn new(alloc: Global) -> Self
        ensures { result ≡ new_held }
    {
        CapsuleReading {
            alloc,
            part: CapsulePart {
                head: [0; 16],
                len: 0,
                value: Vec::new(alloc),
                skip_remaining: 0,
            },
        }
    }

    /// Takes bytes up to the end of the next capsule of a known kind, and returns it; `bytes` are
    /// then those after it. Returns `None` if more bytes are needed; then it took all of them.
    ///
    /// However the data is cut into pieces, the capsules are the same. Errors:
    ///
    /// - `TooLong`: the next capsule of a known kind is longer than the limit. `bytes` are those
    ///   after its length, and each later call returns `TooLong` and takes no byte.
    /// - `Memory`: allocation failed for a value of at least one byte. The type and the length are
    ///   taken, no byte of the value is, and nothing is lost: a later call with the bytes left
    ///   continues.
    pub fn next(&mut self, bytes: &mut &[u8]) -> Result<Option<CapsuleOwned>, CapsuleError>
        ensures given { NextGiven result self.old bytes.old.now self.new bytes.new.now }
    {
        loop {
            if let Some(result) = self.step(bytes) {
                return result;
            }
        }
    }

    /// Returns an error if the data may not end here, because a capsule has begun (RFC 9297,
    /// section 3.3).
    pub fn finish(&self) -> Result<(), TruncatedCapsule>
        ensures { IsOk result ↔ (next_held self.now [] ≡ End) }
    {
        if self.part.len > 0 || self.part.skip_remaining > 0 {
            return Err(TruncatedCapsule);
        }
        Ok(())
    }

    /// Takes bytes up to the value of the next unknown capsule, or up to a result.
    fn step(&mut self, bytes: &mut &[u8]) -> Option<Result<Option<CapsuleOwned>, CapsuleError>>
        ensures { Stepped result self.old bytes.old.now self.new bytes.new.now }
    {
        match self.part.advance(bytes) {
            Reached::Skipping => None,
            Reached::More => Some(Ok(None)),
            Reached::TooLong => Some(Err(CapsuleError::TooLong)),
            Reached::Memory => Some(Err(CapsuleError::Memory)),
            Reached::Complete(kind) => {
                let value = mem::replace(&mut self.part.value, Vec::new(self.alloc));
                self.part.len = 0;
                Some(Ok(Some(Capsule {
                    kind,
                    payload: CowSlice::Owned(value),
                })))
            }
        }
    }
}

/// How far the bytes went.
#[derive(Clone, Copy)]
enum Reached {
    /// The value of an unknown capsule is next. It has to be skipped.
    Skipping,
    /// More bytes are needed.
    More,
    /// The value of a capsule is too long.
    TooLong,
    /// Allocation failed.
    Memory,
    /// The value of a capsule of this kind is complete.
    Complete(CapsuleKind),
}

impl CapsulePart {
    /// Takes bytes of one capsule.
    fn advance(&mut self, bytes: &mut &[u8]) -> Reached
        requires long { length self.old.head ≡ 16 }
        requires fits { self.old.len ≤ 16 }
        requires part { IsPart (take self.old.len self.old.head) self.old.value.items
            self.old.skip_remaining }
        requires room { HasRoom (head_says (take self.old.len self.old.head))
            (vec_len self.old.value) (vec_capacity self.old.value) }
        ensures long { length self.new.head ≡ 16 }
        ensures fits { self.new.len ≤ 16 }
        ensures room { HasRoom (head_says (take self.new.len self.new.head))
            (vec_len self.new.value) (vec_capacity self.new.value) }
        ensures advanced { Advanced result
            (holding (take self.old.len self.old.head) self.old.value.items self.old.skip_remaining)
            bytes.old.now
            (take self.new.len self.new.head) self.new.value.items self.new.skip_remaining
            bytes.new.now }
    {
        skip(bytes, &mut self.skip_remaining);
        if self.skip_remaining > 0 {
            return Reached::More;
        }
        if !take_head(bytes, &mut self.head, &mut self.len) {
            return Reached::More;
        }
        match read_head(&self.head[..self.len]) {
            CapsuleAnnouncement::Unfinished => unreachable!(),
            CapsuleAnnouncement::TooLong => Reached::TooLong,
            CapsuleAnnouncement::Skip(size) => {
                self.len = 0;
                self.skip_remaining = size;
                Reached::Skipping
            }
            CapsuleAnnouncement::Keep(kind, size) => match take_value(
                bytes,
                &mut self.value,
                size,
            ) {
                Ok(true) => Reached::Complete(kind),
                Ok(false) => Reached::More,
                Err(_) => Reached::Memory,
            },
        }
    }
}

/// Skips `skip_remaining` bytes, or all if there are fewer, and subtracts their number from
/// `skip_remaining`.
fn skip(bytes: &mut &[u8], skip_remaining: &mut u64)
    ensures skip_remaining { skip_remaining.new ≡ skip_remaining.old - length bytes.old.now }
    ensures rest { bytes.new.now ≡ drop skip_remaining.old bytes.old.now }
{
    let len = bytes.len() as u64;
    if *skip_remaining < len {
        *bytes = bytes.split_at(*skip_remaining as usize).1;
        *skip_remaining = 0;
    } else {
        *skip_remaining -= len;
        *bytes = bytes.split_at(bytes.len()).1;
    }
}

/// Takes bytes until the type and the length are complete, which are two numbers, as the head of a
/// frame. Returns whether they are.
fn take_head(bytes: &mut &[u8], head: &mut [u8; 16], len: &mut usize) -> bool
    requires fits { len.old ≤ 16 }
    requires within { len.old ≤ frame_need (take len.old head.old) }
    ensures whole { IsTrue result → frame_need (take len.new head.new) ≡ len.new }
    ensures cut { result ≡ false
        → (len.new < frame_need (take len.new head.new)) × (bytes.new.now ≡ []) }
    ensures long { length head.new ≡ 16 }
    ensures room { len.new ≤ 16 }
    ensures forward { len.old ≤ len.new }
    ensures front { take len.old head.new ≡ take len.old head.old }
    ensures stays { frame_need (take len.old head.old) ≡ len.old
        → (len.new ≡ len.old) × (head.new ≡ head.old) }
    ensures joins { take len.old head.old ++ bytes.old.now
        ≡ take len.new head.new ++ bytes.new.now }
{
    match fill_prefix::<FramePrefix, _>(bytes, head, len) {
        Ok(()) => true,
        Err(_) => false,
    }
}

/// What the type and the length of a capsule say about the value after them.
#[derive(Clone, Copy)]
enum CapsuleAnnouncement {
    /// They are not both complete.
    Unfinished,
    /// It has this length, and the capsule is of this kind.
    Keep(CapsuleKind, usize),
    /// It has this length, and the type is unknown. It has to be skipped.
    Skip(u64),
    /// It is too long.
    TooLong,
}

/// Returns what the type and the length say.
#[tactic(auto, using(crate::proofs::HeadPairLemmas::capsule_steps))]
fn read_head(held: &[u8]) -> CapsuleAnnouncement
    ensures { result ≡ head_says held.now }
{
    let Some(head) = first_pair(held) else {
        return CapsuleAnnouncement::Unfinished;
    };
    let Some(kind) = CapsuleKind::parse(head.first) else {
        return CapsuleAnnouncement::Skip(head.second.into_inner());
    };
    match value_len(kind, head.second) {
        Some(len) => CapsuleAnnouncement::Keep(kind, len),
        None => CapsuleAnnouncement::TooLong,
    }
}

/// Returns the length of a value of this kind, or `None` if it is too long.
pub(crate) fn value_len(kind: CapsuleKind, announced: VarInt) -> Option<usize>
    ensures { MatchOption result (nat_lt (max_value_len kind) announced ≡ true)
        (λ len. (len ≡ announced) × (nat_lt (max_value_len kind) announced ≡ false)) }
{
    let len = announced.into_inner() as usize;
    if len > kind.max_value_len() {
        return None;
    }
    Some(len)
}

/// Takes bytes until the value has `size` bytes. Returns whether it has. Its room is allocated
/// before the first of them.
fn take_value(bytes: &mut &[u8], value: &mut Vec<u8>, size: usize) -> Result<bool, AllocError>
    requires fits { length value.old.items ≤ size }
    requires room { 0 < vec_len value.old → size ≤ vec_capacity value.old }
    ensures whole { result ≡ Ok true → length value.new.items ≡ size }
    ensures cut { result ≡ Ok false → (length value.new.items < size) × (bytes.new.now ≡ []) }
    ensures refused { OnErr result ((length value.new.items < size) × (value.new.items ≡ [])) }
    ensures joins { value.old.items ++ bytes.old.now ≡ value.new.items ++ bytes.new.now }
    ensures room { 0 < vec_len value.new → size ≤ vec_capacity value.new }
{
    if value.is_empty() {
        value.reserve_exact(size)?;
    }
    let missing = size - value.len();
    let (front, rest) = bytes.split_at(missing.min(bytes.len()));
    value.extend_from_slice(front).unwrap();
    *bytes = rest;
    Ok(value.len() == size)
}
