//! The instructions of QPACK's encoder and decoder streams (RFC 9204, sections 4.3 and 4.4).
ghost use Rattle.std.specs.Prelude.{◌≡◌, ◌≤◌, ◌<◌, ℕ, IfOk, Err, Ok, drop, length};
ghost use Rattle.wtp_dynamic.specs.DecoderStream.{acknowledgment_at};
ghost use Rattle.wtp_dynamic.specs.Instruction.{instruction_at};
ghost use Rattle.wtp_dynamic.specs.InstructionView.{coded, instruction as view};
ghost use Rattle.wtp_dynamic.specs.Steps.{Makes, literal_entry, text_of};
ghost use Rattle.wt_inspection.specs.Instructions.{IsUnreadable, Said, acknowledged, is_empty};
ghost use Rattle.wt_inspection.specs.Instructions.{dynamic_said, literal_said, said, said_by};
ghost use Rattle.wt_inspection.specs.Instructions.{static_said};
ghost use Rattle.wt_inspection.specs.Recording.{IsNext};
ghost use Rattle.wt_inspection.specs.Resolved.{HasNoSection};
ghost use Rattle.wt_inspection.specs.Sections.{shown_of};

use crate::reading::{Next, Step, cut, fault_by};
use std::alloc::{AllocError, Global};
use wt_inspection_model::item::{Content, End, FaultCode, Index, Instruction, Line, Unknown};
use wtp_dynamic::acknowledgment::{self, Acknowledgment};
use wtp_dynamic::error::EncoderStreamError;
use wtp_dynamic::instruction::{self, Coded, Instruction as Sent};
use wtp_huffman::huffman::{self, HuffmanError};
use wtp_qpack::parts::static_entry;
use wtp_qpack::qpack::DecodingError;

/// Returns the next instruction of an encoder stream.
#[tactic(auto, using(crate::proofs::InstructionLemmas::no_insertion))]
pub(crate) fn next_insertion(alloc: Global, at: usize, rest: &[u8]) -> Result<Step, AllocError>
    requires { 0 < length rest.now }
    ensures within { IfOk result (λ s. s.length ≤ length rest.now) }
    ensures some { IfOk result (λ s. 0 < s.length) }
    ensures read { IfOk result (λ s. IsNext Next.Encoder at rest.now s.length s.content s.after) }
    ensures sections { IfOk result (λ s. HasNoSection s.content) }
{
    match instruction::read(rest) {
        Ok((sent, behind)) => insertion_step(alloc, at, sent, rest, behind),
        Err(cause) => {
            let end = unreadable(at, FaultCode::EncoderStream, cause);
            Ok(Step::last(rest.len(), Content::Unread, end))
        }
    }
}

/// Returns the item of an instruction of an encoder stream, after which these bytes follow.
#[tactic(auto, using(crate::proofs::InstructionLemmas::insertion_rest, crate::proofs::InstructionLemmas::insertion_shorter, crate::proofs::InstructionLemmas::empty_insertion))]
fn insertion_step(
    alloc: Global,
    at: usize,
    sent: Sent<'_>,
    rest: &[u8],
    behind: &[u8],
) -> Result<Step, AllocError>
    requires some { 0 < length rest.now }
    requires read { instruction_at rest.now ≡ Ok (view sent, behind.now) }
    ensures within { IfOk result (λ s. s.length ≤ length rest.now) }
    ensures some { IfOk result (λ s. 0 < s.length) }
    ensures read { IfOk result (λ s. IsNext Next.Encoder at rest.now s.length s.content s.after) }
    ensures sections { IfOk result (λ s. HasNoSection s.content) }
{
    match item_of(alloc, sent) {
        Ok(item) => {
            let length = rest.len() - behind.len();
            Ok(Step::go_on(length, Content::Instruction(item), Next::Encoder))
        }
        Err(EncoderStreamError::Memory) => Err(AllocError),
        Err(cause) => {
            let end = fault_by(at, FaultCode::EncoderStream, describe(cause));
            Ok(Step::last(rest.len(), Content::Unread, end))
        }
    }
}

/// Returns the end at bytes that are no instruction. If they are not too few for one, the fault has
/// this code.
fn unreadable(at: usize, code: FaultCode, cause: DecodingError) -> End
    ensures { IsUnreadable at code cause (Err result) }
{
    match cause {
        DecodingError::UnexpectedFin => cut(at, "instruction", 1),
        DecodingError::IntegerOverflow => {
            let why = "an integer is above 2^64 - 1 (RFC 9204, section 4.1.1)";
            fault_by(at, code, why)
        }
        _ => fault_by(
            at,
            code,
            "the bytes are no instruction (RFC 9204, section 4)",
        ),
    }
}

/// Returns why an instruction of an encoder stream says nothing.
fn describe(cause: EncoderStreamError) -> &'static str {
    match cause {
        EncoderStreamError::IndexNotFound => {
            "the static table has no entry of this index (RFC 9204, section 3.1)"
        }
        _ => "a string is not Huffman text (RFC 9204, section 4.1.2)",
    }
}

/// Returns what an instruction of an encoder stream says.
fn item_of(alloc: Global, sent: Sent<'_>) -> Result<Instruction, EncoderStreamError>
    ensures { Makes said_by result (said (view sent.entry)) }
{
    match sent {
        Sent::SetCapacity(capacity) => Ok(Instruction::SetCapacity(capacity)),
        Sent::InsertNamed(true, index, value) => static_item(alloc, index, value),
        Sent::InsertNamed(false, index, value) => dynamic_item(alloc, index, value),
        Sent::InsertLiteral(name, value) => literal_item(alloc, name, value),
        Sent::Duplicate(index) => Ok(Instruction::Duplicate(Line {
            name: Vec::new(alloc),
            value: Vec::new(alloc),
            unknown: Some(Unknown::Field(Index::Relative(index))),
        })),
    }
}

/// Returns the insertion of a name of the static table and a value.
fn static_item(
    alloc: Global,
    index: u64,
    value: Coded<'_>,
) -> Result<Instruction, EncoderStreamError>
    ensures { Makes said_by result (static_said index (coded value.entry)) }
{
    let Some((named, _)) = static_entry(index) else {
        return Err(EncoderStreamError::IndexNotFound);
    };
    let value = text_of(alloc, value)?;
    let mut name = Vec::new(alloc);
    name.extend_from_slice(named.as_bytes())?;
    let line = Line {
        name,
        value,
        unknown: None,
    };
    Ok(Instruction::InsertStatic(index, line))
}

/// Returns the insertion of a name of the dynamic table and a value.
fn dynamic_item(
    alloc: Global,
    index: u64,
    value: Coded<'_>,
) -> Result<Instruction, EncoderStreamError>
    ensures { Makes said_by result (dynamic_said index (coded value.entry)) }
{
    let value = text_of(alloc, value)?;
    Ok(Instruction::InsertDynamic(Line {
        name: Vec::new(alloc),
        value,
        unknown: Some(Unknown::Name(Index::Relative(index))),
    }))
}

/// Returns the insertion of a name and a value.
fn literal_item(
    alloc: Global,
    name: Coded<'_>,
    value: Coded<'_>,
) -> Result<Instruction, EncoderStreamError>
    ensures { Makes said_by result (literal_said (coded name.entry) (coded value.entry)) }
{
    let name = text_of(alloc, name)?;
    let value = text_of(alloc, value)?;
    Ok(Instruction::InsertLiteral(Line {
        name,
        value,
        unknown: None,
    }))
}

/// Returns the text of a string.
fn text_of(alloc: Global, string: Coded<'_>) -> Result<Vec<u8>, EncoderStreamError>
    ensures { Makes (λ text. text.items) result (text_of (coded string.entry)) }
{
    if !string.is_huffman {
        let mut text = Vec::new(alloc);
        text.extend_from_slice(string.bytes)?;
        return Ok(text);
    }
    match huffman::decode(alloc, string.bytes) {
        Ok(text) => Ok(text),
        Err(HuffmanError::Invalid) => Err(EncoderStreamError::InvalidString),
        Err(HuffmanError::Memory) => Err(EncoderStreamError::Memory),
    }
}

/// Returns the next instruction of a decoder stream.
#[tactic(auto, using(crate::proofs::InstructionLemmas::no_acknowledgment, crate::proofs::InstructionLemmas::empty_acknowledgment, crate::proofs::InstructionLemmas::acknowledgment_rest, crate::proofs::InstructionLemmas::acknowledgment_shorter))]
pub(crate) fn next_acknowledgment(at: usize, rest: &[u8]) -> Step
    requires { 0 < length rest.now }
    ensures within { result.length ≤ length rest.now }
    ensures some { 0 < result.length }
    ensures read { IsNext Next.Decoder at rest.now result.length result.content result.after }
    ensures sections { HasNoSection result.content }
{
    match acknowledgment::read(rest) {
        Ok((next, _)) if is_empty(next) => {
            let why = "an increment is 0 (RFC 9204, section 4.4.3)";
            let end = fault_by(at, FaultCode::DecoderStream, why);
            Step::last(rest.len(), Content::Unread, end)
        }
        Ok((next, behind)) => {
            let length = rest.len() - behind.len();
            Step::go_on(
                length,
                Content::Instruction(acknowledged(next)),
                Next::Decoder,
            )
        }
        Err(cause) => {
            let end = unreadable(at, FaultCode::DecoderStream, cause);
            Step::last(rest.len(), Content::Unread, end)
        }
    }
}

/// Returns whether an instruction of a decoder stream is an increment of 0.
fn is_empty(next: Acknowledgment) -> bool
    ensures { result ≡ is_empty next }
{
    match next {
        Acknowledgment::Increment(count) => count == 0,
        Acknowledgment::Section(_) | Acknowledgment::Cancellation(_) => false,
    }
}

/// Returns what an instruction of a decoder stream says.
fn acknowledged(next: Acknowledgment) -> Instruction
    ensures { said_by result ≡ acknowledged next }
{
    match next {
        Acknowledgment::Section(stream) => Instruction::AcknowledgeSection(stream),
        Acknowledgment::Cancellation(stream) => Instruction::CancelStream(stream),
        Acknowledgment::Increment(count) => Instruction::IncrementCount(count),
    }
}
