//! The instructions of the encoder stream (RFC 9204, section 4.3).

ghost use Rattle.std.specs.Prelude.{◌≡◌, ◌<◌, ◌≤◌};
ghost use Rattle.wtp_qpack.specs.Qpack.{Gives};
ghost use Rattle.wtp_dynamic.specs.Instruction.{coded_at, capacity_at, named_at, literal_at, duplicate_at, instruction_at};
ghost use Rattle.wtp_dynamic.specs.InstructionView.{coded, instruction};

use crate::bits::has_bit;
use wtp_qpack::parts::{has_flag, read_integer};
use wtp_qpack::qpack::DecodingError;

/// A string as it was sent.
#[derive(Clone, Copy)]
pub struct Coded<'a> {
    /// Whether it is Huffman text.
    pub is_huffman: bool,
    /// Its bytes.
    pub bytes: &'a [u8],
}

/// An instruction of the encoder stream.
#[derive(Clone, Copy)]
pub enum Instruction<'a> {
    /// Sets the capacity of the table.
    SetCapacity(u64),
    /// Inserts an entry with the name of another, which is of the static table or not.
    InsertNamed(bool, u64, Coded<'a>),
    /// Inserts an entry with a name and a value.
    InsertLiteral(Coded<'a>, Coded<'a>),
    /// Inserts an entry again.
    Duplicate(u64),
}

/// Reads the string at the start, with its length in the low `N` bits of the first byte.
#[tactic(auto, unfolding(crate::specs::Instruction::coded_at))]
fn read_coded<const N: u32>(bytes: &[u8]) -> Result<(Coded<'_>, &[u8]), DecodingError>
    requires some { 1 ≤ N }
    requires few { N ≤ 7 }
    ensures { Gives (λ x. (coded x.0, x.1.now)) result (coded_at N bytes.now) }
{
    let (size, rest) = read_integer::<N>(bytes)?;
    if size > rest.len() as u64 {
        return Err(DecodingError::UnexpectedFin);
    }
    let (body, behind) = rest.split_at(size as usize);
    let string = Coded {
        is_huffman: has_flag::<N>(bytes),
        bytes: body,
    };
    Ok((string, behind))
}

/// Reads a new capacity.
#[tactic(auto, unfolding(crate::specs::Instruction::capacity_at))]
fn read_capacity(bytes: &[u8]) -> Result<(Instruction<'_>, &[u8]), DecodingError>
    ensures { Gives (λ x. (instruction x.0, x.1.now)) result (capacity_at bytes.now) }
{
    let (capacity, rest) = read_integer::<5>(bytes)?;
    Ok((Instruction::SetCapacity(capacity), rest))
}

/// Reads an insertion with the name of an entry.
#[tactic(auto, unfolding(crate::specs::Instruction::named_at))]
fn read_named(is_static: bool, bytes: &[u8]) -> Result<(Instruction<'_>, &[u8]), DecodingError>
    ensures { Gives (λ x. (instruction x.0, x.1.now)) result (named_at is_static bytes.now) }
{
    let (index, rest) = read_integer::<6>(bytes)?;
    let (value, rest) = read_coded::<7>(rest)?;
    Ok((Instruction::InsertNamed(is_static, index, value), rest))
}

/// Reads an insertion with a name.
#[tactic(auto, unfolding(crate::specs::Instruction::literal_at))]
fn read_literal(bytes: &[u8]) -> Result<(Instruction<'_>, &[u8]), DecodingError>
    ensures { Gives (λ x. (instruction x.0, x.1.now)) result (literal_at bytes.now) }
{
    let (name, rest) = read_coded::<5>(bytes)?;
    let (value, rest) = read_coded::<7>(rest)?;
    Ok((Instruction::InsertLiteral(name, value), rest))
}

/// Reads a duplication.
#[tactic(auto, unfolding(crate::specs::Instruction::duplicate_at))]
fn read_duplicate(bytes: &[u8]) -> Result<(Instruction<'_>, &[u8]), DecodingError>
    ensures { Gives (λ x. (instruction x.0, x.1.now)) result (duplicate_at bytes.now) }
{
    let (index, rest) = read_integer::<5>(bytes)?;
    Ok((Instruction::Duplicate(index), rest))
}

/// Reads the instruction at the start. Returns it and the bytes after it.
#[tactic(auto, unfolding(crate::specs::Instruction::instruction_at))]
pub fn read(bytes: &[u8]) -> Result<(Instruction<'_>, &[u8]), DecodingError>
    ensures { Gives (λ x. (instruction x.0, x.1.now)) result (instruction_at bytes.now) }
{
    let [first, ..] = bytes else {
        return Err(DecodingError::UnexpectedFin);
    };
    match (has_bit(*first, 7), has_bit(*first, 6), has_bit(*first, 5)) {
        (true, is_static, _) => read_named(is_static, bytes),
        (false, true, _) => read_literal(bytes),
        (false, false, true) => read_capacity(bytes),
        (false, false, false) => read_duplicate(bytes),
    }
}
