//! The reasons that sections and instructions are refused, and their error codes (RFC 9204,
//! section 6).

ghost use Rattle.std.specs.Prelude.{◌≡◌};
ghost use Rattle.wtp_dynamic.specs.declared.error.SectionError.TheVariants as section;
ghost use Rattle.wtp_dynamic.specs.declared.error.EncoderStreamError.TheVariants as encoder;
ghost use Rattle.wtp_dynamic.specs.declared.error.DecoderStreamError.TheVariants as decoder;
ghost use Rattle.wtp_dynamic.specs.Faults.{section_fault, section_code, encoder_stream_code, decoder_stream_code};

use std::alloc::{AllocError, AllocFailed};
use thiserror::Error;
use wtp_core::error::Code;
use wtp_qpack::qpack::DecodingError;

/// The reason that a field section is refused.
#[derive(Clone, Copy, Debug, PartialEq, Eq, Error)]
pub enum SectionError {
    /// The bytes end within an integer, a string or the section's prefix.
    #[error("section ends too early")]
    UnexpectedEnd,
    /// An integer or the Base exceeds 2^64 - 1.
    #[error("integer overflow")]
    IntegerOverflow,
    /// A string is not a Huffman text.
    #[error("invalid string")]
    InvalidString,
    /// The static table has no entry of an index.
    #[error("index not found in the static table")]
    IndexNotFound,
    /// The dynamic table has no entry of an index, or none that the section may refer to.
    #[error("entry not found in the dynamic table")]
    EntryNotFound,
    /// No Required Insert Count has this encoded number.
    #[error("invalid required insert count")]
    InvalidInsertCount,
    /// The Base is negative.
    #[error("negative base")]
    NegativeBase,
    /// More streams wait for insertions than may.
    #[error("too many blocked streams")]
    TooManyBlocked,
    /// Memory allocation failed.
    #[error("no memory")]
    Memory,
}

/// The reason that an instruction of the encoder stream is refused.
#[derive(Clone, Copy, Debug, PartialEq, Eq, Error)]
pub enum EncoderStreamError {
    /// An integer exceeds 2^64 - 1.
    #[error("integer overflow")]
    IntegerOverflow,
    /// An instruction has more bytes than the limit of the table allows.
    #[error("instruction too long")]
    InstructionTooLong,
    /// A string is not a Huffman text.
    #[error("invalid string")]
    InvalidString,
    /// The static table has no entry of an index.
    #[error("index not found in the static table")]
    IndexNotFound,
    /// A capacity exceeds the limit.
    #[error("table capacity above the limit")]
    CapacityAboveLimit,
    /// An entry is larger than the capacity.
    #[error("entry larger than the table")]
    EntryTooLarge,
    /// The dynamic table has no entry of an index.
    #[error("entry not found in the dynamic table")]
    EntryNotFound,
    /// More than 2^62 entries were inserted.
    #[error("too many insertions")]
    TooManyInsertions,
    /// Memory allocation failed.
    #[error("no memory")]
    Memory,
}

/// The reason that an instruction of the decoder stream is refused.
#[derive(Clone, Copy, Debug, PartialEq, Eq, Error)]
pub enum DecoderStreamError {
    /// An integer exceeds 2^64 - 1, or has more bytes than any up to that needs.
    #[error("integer overflow")]
    IntegerOverflow,
    /// No section of a stream is unacknowledged.
    #[error("no such section")]
    UnknownSection,
    /// An increment is 0.
    #[error("increment of 0")]
    ZeroIncrement,
    /// An increment exceeds the insertions.
    #[error("increment past the insertions")]
    IncrementTooLarge,
    /// Memory allocation failed.
    #[error("no memory")]
    Memory,
}

impl SectionError {
    /// Returns `QPACK_DECOMPRESSION_FAILED`, or `None` if memory allocation failed.
    pub fn code(&self) -> Option<Code>
        ensures { result ≡ section_code self.now }
    {
        match self {
            SectionError::Memory => None,
            _ => Some(Code::QPACK_DECOMPRESSION_FAILED),
        }
    }
}

impl EncoderStreamError {
    /// Returns `QPACK_ENCODER_STREAM_ERROR`, or `None` if memory allocation failed.
    pub fn code(&self) -> Option<Code>
        ensures { result ≡ encoder_stream_code self.now }
    {
        match self {
            EncoderStreamError::Memory => None,
            _ => Some(Code::QPACK_ENCODER_STREAM_ERROR),
        }
    }
}

impl DecoderStreamError {
    /// Returns `QPACK_DECODER_STREAM_ERROR`, or `None` if memory allocation failed.
    pub fn code(&self) -> Option<Code>
        ensures { result ≡ decoder_stream_code self.now }
    {
        match self {
            DecoderStreamError::Memory => None,
            _ => Some(Code::QPACK_DECODER_STREAM_ERROR),
        }
    }
}

impl From<DecodingError> for SectionError {
    ghost from_gives = { λ fault e. e ≡ section_fault fault };

    /// Returns the fault of a section that has a fault of integers and strings.
    fn from(fault: DecodingError) -> SectionError {
        match fault {
            DecodingError::UnexpectedFin => SectionError::UnexpectedEnd,
            DecodingError::IntegerOverflow => SectionError::IntegerOverflow,
            DecodingError::InvalidString => SectionError::InvalidString,
            DecodingError::DynamicNotSupported => SectionError::EntryNotFound,
            DecodingError::IndexNotfound => SectionError::IndexNotFound,
            DecodingError::Memory => SectionError::Memory,
        }
    }
}

impl From<AllocError> for SectionError {
    ghost from_gives = { λ _ e. e ≡ section.Memory };

    fn from(_e: AllocError) -> SectionError {
        SectionError::Memory
    }
}

impl<T: Drop> From<AllocFailed<T>> for SectionError {
    ghost from_gives = { λ _ e. e ≡ section.Memory };

    fn from(_e: AllocFailed<T>) -> SectionError {
        SectionError::Memory
    }
}

impl From<AllocError> for EncoderStreamError {
    ghost from_gives = { λ _ e. e ≡ encoder.Memory };

    fn from(_e: AllocError) -> EncoderStreamError {
        EncoderStreamError::Memory
    }
}

impl<T: Drop> From<AllocFailed<T>> for EncoderStreamError {
    ghost from_gives = { λ _ e. e ≡ encoder.Memory };

    fn from(_e: AllocFailed<T>) -> EncoderStreamError {
        EncoderStreamError::Memory
    }
}

impl From<AllocError> for DecoderStreamError {
    ghost from_gives = { λ _ e. e ≡ decoder.Memory };

    fn from(_e: AllocError) -> DecoderStreamError {
        DecoderStreamError::Memory
    }
}
