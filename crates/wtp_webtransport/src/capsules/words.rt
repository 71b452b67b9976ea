//! How far the capsules of a session went, in numbers of a fixed size and bytes that are held, as a
//! caller in C keeps them.
ghost use Rattle.std.specs.Prelude.{◌≡◌, ◌≢◌, [], Some, MatchResult};
ghost use Rattle.wtp_webtransport.specs.Words.{type_number, no_capsules, capsule_words, head_at, skipped_at, capsules_at, held_in, IsSound};
ghost use Rattle.wtp_webtransport.specs.Capsules.{Value};

use crate::capsules::{CapsuleType, Capsules};
use std::alloc::{AllocError, Global};
use wtp_wire::head::first_pair;

/// How far the capsules of a session went. The bytes of one that is cut are held beside it.
#[repr(C)]
#[derive(Clone, Copy, PartialEq, Eq)]
pub struct CapsuleWords {
    /// 0 where there are no capsules; 1 within a type and a length; 2 within a value that is skipped;
    /// 3, 4 and 5 within that of a datagram, of a close and of a drain.
    pub kind: u64,
    /// How many bytes of the value are missing.
    pub missing: u64,
    /// How many bytes are held: those of the type and the length, or those of the value.
    pub held: usize,
}

impl CapsuleType {
    // Returns the number of the variant, from 0 on.
    fn number(self) -> u64
        ensures { result ≡ type_number self }
    {
        match self {
            CapsuleType::Datagram => 0,
            CapsuleType::Close => 1,
            CapsuleType::Drain => 2,
        }
    }
}

impl CapsuleWords {
    /// Creates the words where there are no capsules.
    pub fn none() -> Self
        ensures { result ≡ no_capsules }
    {
        CapsuleWords {
            kind: 0,
            missing: 0,
            held: 0,
        }
    }
}

impl Capsules {
    // Returns the words.
    pub(crate) fn to_words(&self) -> CapsuleWords
        ensures words { result ≡ capsule_words (Some self.now) }
        ensures sound { IsSound (Some self.now) }
    {
        match self.begun {
            Some(kind) => CapsuleWords {
                kind: 3 + kind.number(),
                missing: self.missing,
                held: self.value.len(),
            },
            None if self.missing > 0 => CapsuleWords {
                kind: 2,
                missing: self.missing,
                held: 0,
            },
            None => CapsuleWords {
                kind: 1,
                missing: 0,
                held: self.head.len(),
            },
        }
    }

    // Returns the bytes that are held.
    pub(crate) fn held(&self) -> &[u8]
        ensures { result.now ≡ held_in (Some self.now) }
    {
        match self.begun {
            Some(_) => self.value.as_slice(),
            None => self.head.as_slice(),
        }
    }

    // Creates the capsules of these words, with the bytes that are held. Other words give any.
    pub(crate) fn from_words(
        alloc: Global,
        words: CapsuleWords,
        held: &[u8],
    ) -> Result<Option<Self>, AllocError>
        ensures { MatchResult result (λ c. c ≡ capsules_at words held.now) (λ _. held.now ≢ []) }
    {
        match words.kind {
            1 => Capsules::in_head(alloc, held),
            2 => Ok(Capsules::in_skipped(alloc, words.missing)),
            3 => Capsules::in_value(alloc, CapsuleType::Datagram, held, words.missing),
            4 => Capsules::in_value(alloc, CapsuleType::Close, held, words.missing),
            5 => Capsules::in_value(alloc, CapsuleType::Drain, held, words.missing),
            _ => Ok(None),
        }
    }

    // Creates the capsules within a type and a length of which these bytes came, unless they are
    // complete.
    fn in_head(alloc: Global, held: &[u8]) -> Result<Option<Self>, AllocError>
        ensures { MatchResult result (λ c. c ≡ head_at held.now) (λ _. held.now ≢ []) }
    {
        if first_pair(held).is_some() {
            return Ok(None);
        }
        let mut head = Vec::new(alloc);
        head.extend_from_slice(held)?;
        Ok(Some(Capsules {
            alloc,
            head,
            begun: None,
            value: Vec::new(alloc),
            missing: 0,
        }))
    }

    // Creates the capsules within a value that is skipped, if bytes of it are missing.
    #[tactic(auto, using(crate::proofs::CapsuleLemmas::no_pair))]
    fn in_skipped(alloc: Global, missing: u64) -> Option<Self>
        ensures { result ≡ skipped_at missing }
    {
        if missing == 0 {
            return None;
        }
        Some(Capsules {
            alloc,
            head: Vec::new(alloc),
            begun: None,
            value: Vec::new(alloc),
            missing,
        })
    }

    // Creates the capsules within a value of which these bytes came.
    #[tactic(auto, using(crate::proofs::CapsuleLemmas::no_pair))]
    fn in_value(
        alloc: Global,
        kind: CapsuleType,
        held: &[u8],
        missing: u64,
    ) -> Result<Option<Self>, AllocError>
        ensures { MatchResult result (λ c. c ≡ Some (Value kind held.now missing)) (λ _. held.now ≢ []) }
    {
        let mut value = Vec::new(alloc);
        value.extend_from_slice(held)?;
        Ok(Some(Capsules {
            alloc,
            head: Vec::new(alloc),
            begun: Some(kind),
            value,
            missing,
        }))
    }
}
