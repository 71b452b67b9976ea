//! Field sections of QPACK with the static table only (RFC 9204, section 4.5).
//!
//! A peer that receives a table capacity of 0 sends no line that needs the dynamic table, and such
//! a line is refused.

ghost use Rattle.std.specs.Prelude.{◌≡◌, ℕ, List, IfOk, Err};
ghost use Rattle.std.specs.Borrow.{Bor};
ghost use Rattle.std.specs.Iterator.{IsFinite, Drains};
ghost use Rattle.wtp_qpack.specs.declared.qpack.DecodingError.TheVariants.{Memory};
ghost use Rattle.wtp_qpack.specs.SectionCodes.{huffman_fault};
ghost use Rattle.wtp_qpack.specs.Field.{AreTexts, fields_of, fields_of_texts};
ghost use Rattle.wtp_qpack.specs.Qpack.{GivesUnlessMemory};
ghost use Rattle.wtp_qpack.specs.FieldSection.{SectionNeedsMemory, map_at, section_of};

pub(crate) mod field_line;
mod field_lines;
pub(crate) mod field_section;
pub(crate) mod integer;
pub(crate) mod static_table;
pub(crate) mod string_literal;

pub use field_lines::{FieldBuffer, FieldLine, FieldLines};
use std::alloc::{AllocError, AllocFailed, Global};
use std::collections::BTreeMap;
use thiserror::Error;
use wtp_huffman::huffman::HuffmanError;

/// The reason a field section cannot be read.
#[derive(Debug, Drop, Clone, Copy, PartialEq, Eq, Error)]
pub enum DecodingError {
    /// The bytes end within an integer, a string or the section's prefix.
    #[error("end of stream reached prematurely")]
    UnexpectedFin,
    /// An integer exceeds 2^64 - 1.
    #[error("integer overflow")]
    IntegerOverflow,
    /// A string is not a Huffman text, or its bytes are not UTF-8.
    #[error("invalid string decoding")]
    InvalidString,
    /// A field line refers to the dynamic table.
    #[error("dynamic table is not supported")]
    DynamicNotSupported,
    /// The static table has no entry of an index.
    #[error("index not found in the static table")]
    IndexNotfound,
    /// Memory allocation failed.
    #[error("no memory")]
    Memory,
}

impl From<AllocError> for DecodingError {
    ghost from_gives = { λ _ e. e ≡ Memory };

    fn from(_e: AllocError) -> DecodingError {
        DecodingError::Memory
    }
}

impl<T: Drop> From<AllocFailed<T>> for DecodingError {
    ghost from_gives = { λ _ e. e ≡ Memory };

    fn from(_e: AllocFailed<T>) -> DecodingError {
        DecodingError::Memory
    }
}

impl From<HuffmanError> for DecodingError {
    ghost from_gives = { λ fault e. e ≡ huffman_fault fault };

    /// Returns `InvalidString` for an invalid text, or `Memory` if memory allocation failed.
    fn from(fault: HuffmanError) -> DecodingError {
        match fault {
            HuffmanError::Invalid => DecodingError::InvalidString,
            HuffmanError::Memory => DecodingError::Memory,
        }
    }
}

/// Reads field sections.
#[derive(Clone, Copy, Debug, Default)]
pub struct Decoder;

impl Decoder {
    /// Returns the map of a section's fields. The last value of a name wins.
    ///
    /// Returns the first fault in byte order: a line that needs the dynamic table is refused before
    /// more of it is read, and an index that the static table lacks before the value.
    ///
    /// Returns [`DecodingError::Memory`] only if allocation failed, at a line after valid ones that
    /// is valid too, or that has a Huffman text with no fault before it. So a section without a
    /// line never returns it, nor does one whose first line is plain and has a fault.
    pub fn decode(alloc: Global, section: &[u8]) -> Result<BTreeMap<String, String>, DecodingError>
        ensures read { GivesUnlessMemory (λ m. fields_of m) result (map_at section.now) }
        // Allocation fails only at a line that needs memory, after the prefix and valid lines.
        ensures memory { result ≡ Err Memory → SectionNeedsMemory section.now }
    {
        match field_section::skip_prefix(section) {
            Ok(lines) => field_section::read_lines(alloc, lines),
            Err(fault) => Err(fault),
        }
    }
}

/// Writes field sections.
#[derive(Clone, Copy, Debug, Default)]
pub struct Encoder;

impl Encoder {
    /// Returns the section of the pairs of a name and a value, in their order, with the static
    /// table only (RFC 9204, section 4.5).
    ///
    /// A line refers to the first static entry of its name: to the whole entry if the value is the
    /// same, otherwise to the name. A text is in the Huffman code if that is strictly shorter.
    ///
    /// Returns [`AllocError`] if allocation fails. The pairs are dropped in either case.
    pub fn encode<'a, I: Iterator<Item = (&'a str, &'a str)> + Drop>(
        alloc: Global,
        pairs: I,
    ) -> Result<Vec<u8>, AllocError>
        requires can { I.can_next pairs }
        requires finite { IsFinite (I.remaining pairs) }
        ensures { IfOk result (λ v. (ps : List (Bor (List ℕ) × Bor (List ℕ)))
            × Drains I.next_gives pairs ps × AreTexts (fields_of_texts ps)
            × (v.items ≡ section_of (fields_of_texts ps))) }
    {
        let mut out = field_section::empty_prefix(alloc)?;
        for (name, value) in pairs {
            field_line::write(&mut out, name, value)?;
        }
        Ok(out)
    }
}
