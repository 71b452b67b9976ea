//! The instructions of the decoder stream (RFC 9204, section 4.4).

ghost use Rattle.std.specs.Prelude.{◌≡◌, ◌<◌, ◌++◌, ◌^◌, ℕ, List, OnOk, Ok, MatchResult};
ghost use Rattle.wtp_qpack.specs.Qpack.{Gives};
ghost use Rattle.wtp_dynamic.specs.DecoderStream.{acknowledgment_bytes, section_at, cancellation_at, increment_at, acknowledgment_at, CanAcknowledge};

use crate::bits::has_bit;
use std::alloc::{AllocError, Global};
use wtp_qpack::parts::{read_integer, write_integer};
use wtp_qpack::qpack::DecodingError;

/// An instruction of the decoder stream.
#[derive(Clone, Copy)]
pub enum Acknowledgment {
    /// A section of a stream was decoded, whose Required Insert Count is not 0.
    Section(u64),
    /// A stream was reset, or is no longer read.
    Cancellation(u64),
    /// So many more entries were received.
    Increment(u64),
}

/// Appends the bytes of an instruction.
fn append(out: &mut Vec<u8>, acknowledgment: Acknowledgment) -> Result<(), AllocError>
    ensures { OnOk result (out.new.items ≡ out.old.items ++ acknowledgment_bytes acknowledgment) }
{
    match acknowledgment {
        Acknowledgment::Section(stream) => write_integer::<7>(out, 1, stream),
        Acknowledgment::Cancellation(stream) => write_integer::<6>(out, 1, stream),
        Acknowledgment::Increment(count) => write_integer::<6>(out, 0, count),
    }
}

/// Appends an instruction.
///
/// Returns [`AllocError`] if allocation fails; nothing is appended then.
pub fn write(
    alloc: Global,
    out: &mut Vec<u8>,
    acknowledgment: Acknowledgment,
) -> Result<(), AllocError>
    ensures { MatchResult result
        (λ _. out.new.items ≡ out.old.items ++ acknowledgment_bytes acknowledgment)
        (λ _. out.new.items ≡ out.old.items) }
{
    let mut bytes = Vec::new(alloc);
    append(&mut bytes, acknowledgment)?;
    out.extend_from_slice(bytes.as_slice())
}

/// Reads an acknowledged section.
#[tactic(auto, unfolding(crate::specs::DecoderStream::section_at))]
fn read_section(bytes: &[u8]) -> Result<(Acknowledgment, &[u8]), DecodingError>
    ensures { Gives (λ x. (x.0, x.1.now)) result (section_at bytes.now) }
{
    let (stream, rest) = read_integer::<7>(bytes)?;
    Ok((Acknowledgment::Section(stream), rest))
}

/// Reads a cancelled stream.
#[tactic(auto, unfolding(crate::specs::DecoderStream::cancellation_at))]
fn read_cancellation(bytes: &[u8]) -> Result<(Acknowledgment, &[u8]), DecodingError>
    ensures { Gives (λ x. (x.0, x.1.now)) result (cancellation_at bytes.now) }
{
    let (stream, rest) = read_integer::<6>(bytes)?;
    Ok((Acknowledgment::Cancellation(stream), rest))
}

/// Reads an increment.
#[tactic(auto, unfolding(crate::specs::DecoderStream::increment_at))]
fn read_increment(bytes: &[u8]) -> Result<(Acknowledgment, &[u8]), DecodingError>
    ensures { Gives (λ x. (x.0, x.1.now)) result (increment_at bytes.now) }
{
    let (count, rest) = read_integer::<6>(bytes)?;
    Ok((Acknowledgment::Increment(count), rest))
}

/// Reads the instruction at the start. Returns it and the bytes after it.
#[tactic(auto, unfolding(crate::specs::DecoderStream::acknowledgment_at))]
pub fn read(bytes: &[u8]) -> Result<(Acknowledgment, &[u8]), DecodingError>
    ensures { Gives (λ x. (x.0, x.1.now)) result (acknowledgment_at bytes.now) }
{
    let [first, ..] = bytes else {
        return Err(DecodingError::UnexpectedFin);
    };
    match (has_bit(*first, 7), has_bit(*first, 6)) {
        (true, _) => read_section(bytes),
        (false, true) => read_cancellation(bytes),
        (false, false) => read_increment(bytes),
    }
}

/// An instruction that was written is read again, whatever follows.
pub fn acknowledgments_come_back()
    ensures { (acknowledgment : Acknowledgment) (rest : List ℕ) → CanAcknowledge acknowledgment
        → acknowledgment_at (acknowledgment_bytes acknowledgment ++ rest) ≡ Ok (acknowledgment, rest) }
{}
