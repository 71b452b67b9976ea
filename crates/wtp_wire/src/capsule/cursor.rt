//! Reading capsules from bytes that the caller holds, with no memory.
ghost use Rattle.std.specs.Prelude.{◌≡◌, ◌≤◌, ◌-◌, ◌↔◌, length, IsOk};

use crate::capsule::reading::value_len;
use crate::capsule::{CapsuleKind, TruncatedCapsule};
use crate::head::{first_pair, missing_bytes};
use wtp_core::varint::VarInt;

/// All that reading the capsules of a stream's data remembers between two calls.
///
/// It holds no bytes: the caller does, and gives those after the ones that were consumed. Each
/// value is a valid one.
#[derive(Clone, Copy, Debug, PartialEq, Eq)]
pub struct CapsuleCursor {
    /// How many bytes of an unknown capsule's value are still to be skipped.
    pub skip_remaining: u64,
}

/// A capsule by its place in the bytes given to `CapsuleCursor::next` or `next_any`.
#[derive(Clone, Copy, Debug, PartialEq, Eq)]
pub struct CapsuleSpan {
    /// The kind.
    pub kind: CapsuleKind,
    /// The offset of the value.
    pub start: usize,
    /// The offset of the byte after the value, which is the number of bytes consumed.
    pub end: usize,
    ghost ordered: { start ≤ end },
}

/// What a cursor finds next.
#[derive(Clone, Copy, Debug, PartialEq, Eq)]
pub enum CapsuleStep {
    /// A capsule of a known kind. The bytes up to its end are consumed.
    Capsule(CapsuleSpan),
    /// More bytes are needed, after this many that are consumed.
    More(usize),
    /// A value that is too long. No byte is consumed.
    TooLong,
}

/// A capsule of an unknown type, by its type, its length and the place of its value in the bytes
/// given to `CapsuleCursor::next_any`.
#[derive(Clone, Copy, Debug, PartialEq, Eq)]
pub struct UnknownCapsule {
    /// The type.
    pub number: VarInt,
    /// The length of the value in bytes, however many of them have come.
    pub announced: VarInt,
    /// The offset of the value, which is the number of bytes consumed.
    pub start: usize,
}

/// What a cursor finds next, if capsules of unknown types count.
#[derive(Clone, Copy, Debug, PartialEq, Eq)]
pub enum AnyCapsule {
    /// A capsule of a known kind. The bytes up to its end are consumed.
    Known(CapsuleSpan),
    /// A capsule of an unknown type. The bytes up to its value are consumed.
    Unknown(UnknownCapsule),
    /// More bytes are needed, after this many that are consumed.
    More(usize),
    /// A value that is too long. No byte is consumed.
    TooLong,
}

impl CapsuleSpan {
    ghost use Rattle.wtp_wire.specs.CapsuleCursor.{capsule_value};

    /// Returns the value of the capsule. Requires that these are the bytes given to
    /// `CapsuleCursor::next`, or at least as many.
    pub fn value<'a>(&self, bytes: &'a [u8]) -> &'a [u8]
        requires { self.now.end ≤ length bytes.now }
        ensures { result.now ≡ capsule_value self.now bytes.now }
    {
        &bytes[self.start..self.end]
    }
}

impl CapsuleCursor {
    ghost use Rattle.wtp_wire.specs.AnyCapsule.{AnyIs, CapsulesOfAny, missing_from};
    ghost use Rattle.wtp_wire.specs.CapsuleCursor.{StepIs, CapsulesGoOn, IsLeftOver};
    ghost use Rattle.wtp_wire.specs.CapsuleCursor.{capsules_from, ending_of};
    ghost use Rattle.wtp_wire.specs.CapsuleStream.{ends};

    /// Creates a cursor at the first capsule of a stream's data.
    pub fn new() -> Self
        ensures { result ≡ record { skip_remaining = 0 } }
    {
        CapsuleCursor { skip_remaining: 0 }
    }

    /// Finds the next capsule of a known kind in the bytes that follow those consumed before. It
    /// does not allocate.
    ///
    /// The bytes are the payloads of DATA frames, joined. Capsules of unknown types are skipped,
    /// also piece by piece (RFC 9297, section 3.2).
    ///
    /// - `Capsule(place)`: the next capsule. The bytes up to `place.end` are consumed.
    /// - `More(n)`: there is no complete capsule. The first `n` bytes are consumed; at most 1043
    ///   are left, which have to be given again with more bytes after them.
    /// - `TooLong`: the value of the next capsule is longer than `CapsuleKind::max_value_len`. The
    ///   cursor does not change.
    ///
    /// However the data is cut into pieces, the capsules are the same, and so is the ending.
    pub fn next(&mut self, bytes: &[u8]) -> CapsuleStep
        ensures step { StepIs result self.old bytes.now self.new }
        ensures capsules { CapsulesGoOn result self.old bytes.now self.new }
    {
        self.find(bytes)
    }

    /// Finds the next capsule of a known kind.
    fn find(&mut self, bytes: &[u8]) -> CapsuleStep
        ensures { StepIs result self.old bytes.now self.new }
    {
        let before = *self;
        let mut at: usize = 0;
        'capsules: loop {
            match self.first(bytes.split_at(at).1) {
                AnyCapsule::Unknown(unknown) => at += unknown.start,
                AnyCapsule::Known(place) => {
                    return CapsuleStep::Capsule(CapsuleSpan {
                        kind: place.kind,
                        start: at + place.start,
                        end: at + place.end,
                    });
                }
                AnyCapsule::More(n) => return CapsuleStep::More(at + n),
                AnyCapsule::TooLong => {
                    *self = before;
                    return CapsuleStep::TooLong;
                }
            }
        }
    }

    /// Finds the next capsule of any type in the bytes that follow those consumed before. It does
    /// not allocate.
    ///
    /// The bytes are the payloads of DATA frames, joined. The first `skip_remaining` of them are
    /// skipped: they are the rest of an unknown capsule's value.
    ///
    /// - `Known(place)`: the next capsule, of a known kind. The bytes up to `place.end` are
    ///   consumed.
    /// - `Unknown(capsule)`: the next capsule, of an unknown type. The bytes up to `capsule.start`
    ///   are consumed, and `skip_remaining` is the length of its value, which later calls skip,
    ///   also piece by piece (RFC 9297, section 3.2). Whoever takes bytes of the value instead
    ///   subtracts their number from `skip_remaining`.
    /// - `More(n)`: there is no complete type and length, or they are those of a known kind and its
    ///   value is not complete. The first `n` bytes are consumed: those that were to be skipped, as
    ///   far as they came. At most 1043 are left, which have to be given again with more bytes
    ///   after them.
    /// - `TooLong`: the value of the next capsule is longer than `CapsuleKind::max_value_len`. The
    ///   cursor does not change.
    pub fn next_any(&mut self, bytes: &[u8]) -> AnyCapsule
        ensures first { AnyIs result self.old bytes.now self.new }
        ensures capsules { CapsulesOfAny result self.old bytes.now self.new }
    {
        self.first(bytes)
    }

    /// Finds the next capsule of any type.
    fn first(&mut self, bytes: &[u8]) -> AnyCapsule
        ensures { AnyIs result self.old bytes.now self.new }
    {
        let skip_remaining = self.skip_remaining;
        let left = bytes.len() as u64;
        if skip_remaining > left {
            self.skip_remaining = skip_remaining - left;
            return AnyCapsule::More(bytes.len());
        }
        let at = skip_remaining as usize;
        match Start::read(bytes.split_at(at).1) {
            Start::Unknown(head) => {
                self.skip_remaining = head.announced.into_inner();
                AnyCapsule::Unknown(UnknownCapsule {
                    number: head.number,
                    announced: head.announced,
                    start: at + head.start,
                })
            }
            Start::Known(place) => {
                self.skip_remaining = 0;
                AnyCapsule::Known(CapsuleSpan {
                    kind: place.kind,
                    start: at + place.start,
                    end: at + place.end,
                })
            }
            Start::TooLong => AnyCapsule::TooLong,
            Start::Cut => {
                self.skip_remaining = 0;
                AnyCapsule::More(at)
            }
        }
    }

    /// Returns how many bytes are missing, with `rest` left over: those to be skipped; of a type
    /// and a length that are not complete, the least number; or else those of a value. The rest are
    /// the bytes after the first `n`, after `More(n)`.
    pub fn missing(&self, rest: &[u8]) -> u64
        ensures { result ≡ missing_from self.now rest.now }
    {
        if self.skip_remaining > 0 {
            return self.skip_remaining;
        }
        match first_pair(rest) {
            None => missing_bytes(rest) as u64,
            Some(head) => {
                let come = rest.len() - head.size;
                head.second.into_inner().saturating_sub(come as u64)
            }
        }
    }

    /// Returns an error if the data may not end here, with `rest` left over, because a capsule has
    /// begun (RFC 9297, section 3.3). The rest are the bytes after the first `n`, after `More(n)`.
    #[tactic(auto, using(crate::proofs::CapsuleCursorLemmas::endings))]
    pub fn finish(&self, rest: &[u8]) -> Result<(), TruncatedCapsule>
        ensures clean { IsOk result ↔ ((self.now.skip_remaining ≡ 0) × (length rest.now ≡ 0)) }
        ensures ending { IsLeftOver self.now rest.now
            → capsules_from self.now rest.now ≡ ends (ending_of result) }
    {
        if self.skip_remaining > 0 || !rest.is_empty() {
            return Err(TruncatedCapsule);
        }
        Ok(())
    }
}

/// What bytes start with.
#[derive(Clone, Copy)]
enum Start {
    /// An unknown type and the length of its value.
    Unknown(UnknownCapsule),
    /// A complete capsule of a known kind.
    Known(CapsuleSpan),
    /// The type and the length of a value that is too long.
    TooLong,
    /// Fewer bytes than a type, a length, and a value of a known kind.
    Cut,
}

impl Start {
    ghost use Rattle.wtp_wire.specs.AnyCapsule.{StartIs};

    /// Returns what the bytes start with.
    fn read(bytes: &[u8]) -> Start
        ensures { StartIs result bytes.now }
    {
        let Some(head) = first_pair(bytes) else {
            return Start::Cut;
        };
        let Some(kind) = CapsuleKind::parse(head.first) else {
            return Start::Unknown(UnknownCapsule {
                number: head.first,
                announced: head.second,
                start: head.size,
            });
        };
        let Some(len) = value_len(kind, head.second) else {
            return Start::TooLong;
        };
        let start = head.size;
        if len > bytes.len() - start {
            return Start::Cut;
        }
        Start::Known(CapsuleSpan {
            kind,
            start,
            end: start + len,
        })
    }
}
