//! The decoder stream, read from pieces that are cut anywhere (RFC 9204, section 4.4).

ghost use Rattle.std.specs.Prelude.{◌≡◌, ℕ, List, [], ◌++◌, ◌<◌, length, take, IfOk, MatchOption};
ghost use Rattle.wtp_dynamic_encoder.specs.Acknowledging.{most_bytes, first_of, step, IsCut, Steps, StreamRead};
ghost use Rattle.wtp_dynamic_encoder.specs.FirstView.{first_seen};

use std::alloc::{AllocError, Global};
use std::marker::Model;
use std::mem::replace;
use wtp_dynamic::acknowledgment::{self, Acknowledgment};
use wtp_dynamic::error::DecoderStreamError;
use wtp_dynamic::ledger::Ledger;
use wtp_qpack::qpack::DecodingError;

/// The most bytes of an instruction: one with a prefix, and ten groups of seven bits.
const MOST_BYTES: usize = 11;

/// The first instruction of bytes.
#[derive(Clone, Copy)]
enum First<'a> {
    /// An instruction, and the bytes after it.
    Whole(Acknowledgment, &'a [u8]),
    /// The bytes end within an instruction, or before one.
    Cut,
    /// A number exceeds 2^64 - 1, or has more bytes than any up to that needs.
    Overflow,
}

/// Returns the first bytes, at most as many as an instruction may have.
fn head(bytes: &[u8]) -> &[u8]
    ensures { result.now ≡ take most_bytes bytes.now }
{
    if bytes.len() > MOST_BYTES {
        bytes.split_at(MOST_BYTES).0
    } else {
        bytes
    }
}

/// Reads the first instruction.
#[tactic(auto, unfolding(crate::specs::Acknowledging::first_of))]
fn read_first(bytes: &[u8]) -> First<'_>
    ensures { first_of bytes.now ≡ first_seen result }
{
    let head = head(bytes);
    match acknowledgment::read(head) {
        Ok((next, rest)) => {
            let used = head.len() - rest.len();
            First::Whole(next, bytes.split_at(used).1)
        }
        Err(DecodingError::UnexpectedFin) => {
            if bytes.len() >= MOST_BYTES {
                First::Overflow
            } else {
                First::Cut
            }
        }
        Err(_) => First::Overflow,
    }
}

/// Does an instruction, where so many entries were inserted. An error changes nothing.
fn apply(ledger: &mut Ledger, inserted: u64, next: Acknowledgment) -> Result<(), DecoderStreamError>
    ensures { Steps (step next inserted ledger.old) ledger.old ledger.new result }
{
    match next {
        Acknowledgment::Section(stream) => ledger.acknowledge(stream),
        Acknowledgment::Cancellation(stream) => {
            ledger.cancel(stream);
            Ok(())
        }
        Acknowledgment::Increment(count) => ledger.increment(count, inserted),
    }
}

/// Does the instructions at the start of bytes, and returns the bytes of one that is cut.
fn read_instructions<'a>(
    ledger: &mut Ledger,
    inserted: u64,
    bytes: &'a [u8],
) -> Result<&'a [u8], DecoderStreamError>
    ensures { StreamRead (λ rest. rest.now) inserted ledger.old bytes.now ledger.new result }
{
    let mut rest = bytes;
    'instructions: loop {
        match read_first(rest) {
            First::Whole(next, behind) => match apply(ledger, inserted, next) {
                Ok(()) => rest = behind,
                Err(fault) => return Err(fault),
            },
            First::Cut => return Ok(rest),
            First::Overflow => return Err(DecoderStreamError::IntegerOverflow),
        }
    }
}

/// The encoder's end of a decoder stream: the bytes of an instruction that is cut.
#[derive(Drop)]
pub struct DecoderStream {
    held: Vec<u8>,
}

// Contracts treat the stream's end as the bytes that it holds, which are cut.
impl Model for DecoderStream {
    ghost use Rattle.std.specs.Prelude.{ℕ, List};
    ghost use Rattle.wtp_dynamic_encoder.specs.Acknowledging.{IsCut};

    ghost Value = { List ℕ };

    ghost view = { λ stream. stream.held.items };

    ghost invariant = { λ stream. IsCut stream.held.items };
}

impl DecoderStream {
    /// Creates the end of a stream that begins. Nothing is allocated.
    #[tactic(auto, using(crate::proofs::Acknowledged::cut_nothing))]
    pub fn new(alloc: Global) -> Self
        ensures { result ≡ [] }
    {
        DecoderStream {
            held: Vec::new(alloc),
        }
    }

    /// Creates the end of a stream of which these bytes of a cut instruction are held. Returns `None` if
    /// they are not the beginning of an instruction, or are a whole one.
    pub fn resume(alloc: Global, held: &[u8]) -> Result<Option<Self>, AllocError>
        ensures { IfOk result (λ resumed. MatchOption resumed (¬ (IsCut held.now))
            (λ stream. (stream ≡ held.now) × IsCut held.now)) }
    {
        let mut bytes = Vec::new(alloc);
        bytes.extend_from_slice(held)?;
        if let First::Cut = read_first(held) {
            Ok(Some(DecoderStream { held: bytes }))
        } else {
            Ok(None)
        }
    }

    /// Returns the bytes of a cut instruction that are held.
    pub fn held_bytes(&self) -> &[u8]
        ensures is { result.now ≡ self.now }
        ensures cut { IsCut result.now }
    {
        self.held.as_slice()
    }

    /// Returns how many bytes of a cut instruction are held: at most ten.
    #[tactic(auto, using(crate::proofs::Acknowledged::held_few))]
    pub fn held(&self) -> usize
        ensures count { result ≡ length self.now }
        ensures few { result < most_bytes }
    {
        self.held.len()
    }

    /// Reads the next piece of the stream, where so many entries were inserted so far: does the
    /// instructions that are now complete to the ledger.
    ///
    /// Returns the fault of the stream, or [`DecoderStreamError::Memory`] if allocation failed. The
    /// ledger then is what the instructions before it made, and the stream cannot be read on.
    #[tactic(auto, using(crate::proofs::Acknowledged::cut_nothing))]
    pub fn read(
        &mut self,
        alloc: Global,
        ledger: &mut Ledger,
        inserted: u64,
        piece: &[u8],
    ) -> Result<(), DecoderStreamError>
        ensures { StreamRead (λ _. self.new) inserted ledger.old (self.old ++ piece.now) ledger.new
            result }
    {
        if !self.held.is_empty() {
            return self.read_on(alloc, ledger, inserted, piece);
        }
        self.held.clear();
        let rest = read_instructions(ledger, inserted, piece)?;
        self.held.extend_from_slice(rest)?;
        Ok(())
    }

    /// The same after a piece that cut an instruction.
    #[tactic(auto, using(crate::proofs::Acknowledged::cut_nothing))]
    fn read_on(
        &mut self,
        alloc: Global,
        ledger: &mut Ledger,
        inserted: u64,
        piece: &[u8],
    ) -> Result<(), DecoderStreamError>
        ensures { StreamRead (λ _. self.new) inserted ledger.old (self.old ++ piece.now) ledger.new
            result }
    {
        self.held.extend_from_slice(piece)?;
        let joined = replace(&mut self.held, Vec::new(alloc));
        let rest = read_instructions(ledger, inserted, joined.as_slice())?;
        self.held.extend_from_slice(rest)?;
        Ok(())
    }
}
