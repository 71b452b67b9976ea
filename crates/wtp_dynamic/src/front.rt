//! The first instruction of bytes of which only so many may belong to one instruction.

ghost use Rattle.std.specs.Prelude.{◌≡◌, ℕ, List, ◌++◌, take};
ghost use Rattle.wtp_dynamic.specs.Front.{front_at, FrontGoes};
ghost use Rattle.wtp_dynamic.specs.FrontView.{front_seen};

use crate::instruction::{self, Instruction};
use wtp_qpack::qpack::DecodingError;

/// The first instruction of bytes.
#[derive(Clone, Copy)]
pub enum Front<'a> {
    /// An instruction, and the bytes after it.
    Whole(Instruction<'a>, &'a [u8]),
    /// The bytes end within an instruction, or before one.
    Cut,
    /// An instruction has more bytes than it may have.
    TooLong,
    /// The bytes are no instruction.
    Faulty(DecodingError),
}

/// Returns the first bytes, at most so many.
fn head(most: usize, bytes: &[u8]) -> &[u8]
    ensures { result.now ≡ take most bytes.now }
{
    if bytes.len() > most {
        bytes.split_at(most).0
    } else {
        bytes
    }
}

/// Reads the first instruction.
#[tactic(auto, unfolding(crate::specs::Front::front_at))]
pub fn read(most: usize, bytes: &[u8]) -> Front<'_>
    ensures { front_at most bytes.now ≡ front_seen result }
{
    let head = head(most, bytes);
    match instruction::read(head) {
        Ok((next, rest)) => {
            let used = head.len() - rest.len();
            Front::Whole(next, bytes.split_at(used).1)
        }
        Err(DecodingError::UnexpectedFin) => {
            if bytes.len() >= most {
                Front::TooLong
            } else {
                Front::Cut
            }
        }
        Err(fault) => Front::Faulty(fault),
    }
}

/// However the bytes are cut, the front is the same: more bytes change nothing, unless there were
/// too few.
pub fn fronts_of_pieces()
    ensures { (most : ℕ) (bytes more : List ℕ)
        → FrontGoes more (front_at most bytes) (front_at most (bytes ++ more)) }
{}
