//! The capsules of a session, in the content of its own stream (RFC 9297, section 3.2).
ghost use Rattle.std.specs.Prelude.{◌≡◌, ◌≢◌, ◌≤◌, ◌<◌, ◌+◌, ◌-◌, ◌++◌, ◌↔◌, [], None, Some, Ok, length, drop, IsTrue, MatchResult, MatchOption, IfOk, OnErr};
ghost use Rattle.wtp_wire.specs.Settings.{pair_at};
ghost use Rattle.wtp_webtransport.specs.CapsuleRows.{sort_row, type_in};
ghost use Rattle.wtp_webtransport.specs.Capsules.{sort_of as sort_of_is, between, skipping, CapsuleIs, StartGives, ValueGives, HeadIs};

pub mod words;

use std::alloc::{AllocError, Global};
use std::marker::Model;
use std::mem;
use vesgrauf_registry::capsules::{Meaning, find_capsule};
use wtp_core::varint::VarInt;
use wtp_wire::capsule::CapsuleError;
use wtp_wire::head::{FirstPair, first_pair};

/// A capsule that means something to a session.
#[derive(Clone, Copy)]
pub(crate) enum CapsuleType {
    /// A datagram of the session (RFC 9297, section 3.5).
    Datagram,
    /// The session is closed (draft-ietf-webtrans-http3-02, section 5).
    Close,
    /// The session is to be closed soon (draft-ietf-webtrans-http3-07, section 4.6).
    Drain,
}

/// What is done with the value of a capsule.
#[derive(Clone, Copy)]
enum Sort {
    /// It is read.
    Read(CapsuleType),
    /// It is skipped.
    Skip,
    /// It is longer than any value of its capsule.
    Refuse,
}

/// A capsule with its value.
#[derive(Drop)]
pub(crate) struct SessionCapsule {
    pub(crate) kind: CapsuleType,
    pub(crate) value: Vec<u8>,
}

impl Model for SessionCapsule {
    ghost use Rattle.std.specs.Prelude.{ℕ, List};
    ghost use Rattle.wtp_webtransport.specs.declared.capsules.CapsuleType.{CapsuleType};

    ghost Value = { CapsuleType × List ℕ };

    ghost view = { λ c. (c.kind, c.value.items) };
}

impl SessionCapsule {
    // Returns the value.
    pub(crate) fn value(&self) -> &[u8]
        ensures { result.now ≡ self.now.1 }
    {
        self.value.as_slice()
    }
}

/// How far the capsules of a session went. It holds the bytes of one that is cut.
#[derive(Drop)]
pub(crate) struct Capsules {
    alloc: Global,
    /// The bytes of a type and a length that are not complete.
    head: Vec<u8>,
    /// The capsule whose value is read.
    begun: Option<CapsuleType>,
    /// The bytes of the value that came.
    value: Vec<u8>,
    /// How many bytes of a value that is read or skipped are missing.
    missing: u64,
}

impl Model for Capsules {
    ghost use Rattle.wtp_webtransport.specs.Capsules.{Place, place_by, IsPlace};

    ghost Value = { Place };

    ghost view = { λ c. place_by c.begun c.missing c.head.items c.value.items };

    ghost invariant = { λ c. IsPlace c.begun c.missing c.head.items c.value.items };
}

impl Capsules {
    // Begins before the first capsule.
    #[tactic(auto, using(crate::proofs::CapsuleLemmas::no_pair))]
    pub(crate) fn new(alloc: Global) -> Self
        ensures { result ≡ between }
    {
        Capsules {
            alloc,
            head: Vec::new(alloc),
            begun: None,
            value: Vec::new(alloc),
            missing: 0,
        }
    }

    // Takes bytes up to the end of one capsule, and returns it if it means something. With
    // `CapsuleError::Memory` nothing is lost: the next call goes on with the bytes that are left.
    pub(crate) fn next(&mut self, bytes: &mut &[u8]) -> Result<Option<SessionCapsule>, CapsuleError>
        ensures { CapsuleIs result self.old bytes.old.now self.new bytes.new.now }
    {
        match self.begun {
            Some(kind) => {
                let value = mem::replace(&mut self.value, Vec::new(self.alloc));
                self.take_value(kind, value, self.missing, bytes)
            }
            None if self.missing > 0 => {
                self.skip(self.missing, bytes);
                Ok(None)
            }
            None => match take_head(&mut self.head, bytes) {
                Ok(Some(pair)) => self.start(pair, bytes),
                Ok(None) => Ok(None),
                Err(_) => Err(CapsuleError::Memory),
            },
        }
    }

    // Takes bytes after a type and a length.
    fn start(
        &mut self,
        pair: FirstPair,
        bytes: &mut &[u8],
    ) -> Result<Option<SessionCapsule>, CapsuleError>
        ensures { StartGives result (sort_of_is pair.first pair.second) pair.second bytes.old.now
            self.new bytes.new.now }
    {
        let len = pair.second.into_inner();
        match sort_of(pair.first, pair.second) {
            Sort::Read(kind) => self.take_value(kind, Vec::new(self.alloc), len, bytes),
            Sort::Skip => {
                self.skip(len, bytes);
                Ok(None)
            }
            Sort::Refuse => {
                self.skip(0, bytes);
                Err(CapsuleError::TooLong)
            }
        }
    }

    // Takes the bytes of a value that are missing, as far as they came.
    #[tactic(auto, using(crate::proofs::CapsuleLemmas::no_pair))]
    fn take_value(
        &mut self,
        kind: CapsuleType,
        value: Vec<u8>,
        missing: u64,
        bytes: &mut &[u8],
    ) -> Result<Option<SessionCapsule>, CapsuleError>
        ensures { ValueGives result kind value.items missing bytes.old.now self.new bytes.new.now }
    {
        let mut value = value;
        self.head.clear();
        let len = bytes.len();
        if (len as u64) < missing {
            self.begun = Some(kind);
            if value.extend_from_slice(bytes).is_err() {
                self.value = value;
                self.missing = missing;
                return Err(CapsuleError::Memory);
            }
            self.value = value;
            self.missing = missing - len as u64;
            *bytes = bytes.split_at(len).1;
            return Ok(None);
        }
        let (front, rest) = bytes.split_at(missing as usize);
        if value.extend_from_slice(front).is_err() {
            self.begun = Some(kind);
            self.value = value;
            self.missing = missing;
            return Err(CapsuleError::Memory);
        }
        *bytes = rest;
        self.begun = None;
        self.value = Vec::new(self.alloc);
        self.missing = 0;
        Ok(Some(SessionCapsule { kind, value }))
    }

    // Skips the bytes of a value that are missing, as far as they came.
    #[tactic(auto, using(crate::proofs::CapsuleLemmas::no_pair))]
    fn skip(&mut self, missing: u64, bytes: &mut &[u8])
        ensures place { self.new ≡ skipping (missing - length bytes.old.now) }
        ensures rest { bytes.new.now ≡ drop missing bytes.old.now }
    {
        self.head.clear();
        self.value.clear();
        self.begun = None;
        let len = bytes.len() as u64;
        if missing < len {
            *bytes = bytes.split_at(missing as usize).1;
            self.missing = 0;
        } else {
            *bytes = bytes.split_at(bytes.len()).1;
            self.missing = missing - len;
        }
    }

    // Returns whether the content may end here: no capsule has begun.
    pub(crate) fn is_between(&self) -> bool
        ensures { IsTrue result ↔ self.now ≡ between }
    {
        self.head.is_empty() && self.missing == 0 && self.begun.is_none()
    }
}

// Takes bytes until a type and a length are complete, and returns them if they are.
fn take_head(head: &mut Vec<u8>, bytes: &mut &[u8]) -> Result<Option<FirstPair>, AllocError>
    requires { pair_at head.old.items ≡ None }
    ensures { HeadIs result head.old.items bytes.old.now head.new.items bytes.new.now }
{
    'bytes: loop {
        let Some((byte, rest)) = bytes.split_first() else {
            return Ok(None);
        };
        head.push(*byte)?;
        *bytes = rest;
        if let Some(pair) = first_pair(head) {
            head.clear();
            return Ok(Some(pair));
        }
    }
}

// Returns what a capsule with this meaning is to a session, if it means something.
fn type_of(meaning: Meaning) -> Option<CapsuleType>
    ensures { result ≡ type_in meaning }
{
    match meaning {
        Meaning::Datagram => Some(CapsuleType::Datagram),
        Meaning::Close => Some(CapsuleType::Close),
        Meaning::Drain => Some(CapsuleType::Drain),
        _ => None,
    }
}

// Returns what is done with the value of a capsule of this type and length. The row of each type that
// means something is found when this is compiled, since its number is a constant.
#[tactic(auto, using(crate::proofs::RowLemmas::sort_is))]
fn sort_of(id: VarInt, len: VarInt) -> Sort
    ensures { result ≡ sort_of_is id len }
{
    let len = len.into_inner();
    match id.into_inner() {
        0x2843 => sort_row(0x2843, len),
        0x78ae => sort_row(0x78ae, len),
        0x00 => sort_row(0x00, len),
        _ => Sort::Skip,
    }
}

// Returns what is done with a value of this length, by the row of its type.
fn sort_row(id: u64, len: u64) -> Sort
    ensures { result ≡ sort_row id len }
{
    let Some(row) = find_capsule(id) else {
        return Sort::Skip;
    };
    let Some(kind) = type_of(row.columns.meaning) else {
        return Sort::Skip;
    };
    if len <= row.columns.longest {
        Sort::Read(kind)
    } else if row.columns.bounded {
        Sort::Refuse
    } else {
        Sort::Skip
    }
}
