//! Field lists: the fields of a section in order, with repeated names, as bytes (RFC 9110, section
//! 5; RFC 9114, section 4.2).
//!
//! A header map ([`Headers`](crate::headers::Headers)) contains only UTF-8 texts, and one value for
//! each name. [`FieldList::to_headers`] converts a list to a map.
ghost use Rattle.std.specs.Prelude.{◌≡◌, ◌≢◌, ◌==◌, ◌+◌, ◌-◌, ◌≤◌, ℕ, List, [], ◌∷◌, ◌++◌, length};
ghost use Rattle.std.specs.Prelude.{OnOk, OnErr, IfErr, SomeIff, slice_get, option_map};
ghost use Rattle.std.specs.Option.{option_copied};
ghost use Rattle.wtp_qpack.specs.Field.{Field, field_value, last_value};
ghost use Rattle.wtp_qpack.specs.FieldLines.{seen_line};
ghost use Rattle.wtp_qpack.specs.declared.qpack.DecodingError.TheVariants as decoding;
ghost use Rattle.wtp_fields.specs.FieldList.{values_of, field_size, DecodesTo};
ghost use Rattle.wtp_fields.specs.FieldCodes.{section_error, field_section_code};

mod iter;
mod message;
mod texts;
mod writing;

pub use iter::{Fields, Values};
pub use message::{RequestTarget, ToHeadersError, three_digits};
use std::alloc::{AllocError, Global};
use std::marker::Model;
use texts::{Place, append_field, line_at, with_room};
use thiserror::Error;
pub use writing::{PushError, check_field, is_field_value, is_lower_token, is_token};
use wtp_core::error::ErrorCode;
pub use wtp_qpack::qpack::FieldLine;
use wtp_qpack::qpack::{DecodingError, FieldBuffer, FieldLines};

/// The reason why a section was not decoded to a list.
#[derive(Debug, Drop, Clone, Copy, PartialEq, Eq, Error)]
pub enum FieldSectionError {
    /// The section cannot be decoded. Contains the first error in byte order, which is never
    /// [`DecodingError::Memory`].
    #[error("{0}")]
    Decoding(DecodingError),
    /// The size of the fields exceeds the limit.
    #[error("the fields are larger than the limit")]
    TooLarge,
    /// Memory allocation failed.
    #[error("no memory")]
    Memory,
}

impl From<DecodingError> for FieldSectionError {
    ghost from_gives = { λ fault e. e ≡ section_error fault };

    fn from(fault: DecodingError) -> FieldSectionError {
        match fault {
            DecodingError::Memory => FieldSectionError::Memory,
            fault => FieldSectionError::Decoding(fault),
        }
    }
}

impl From<AllocError> for FieldSectionError {
    ghost use Rattle.std.specs.Prelude.{◌≡◌};
    ghost use Rattle.wtp_fields.specs.declared.fields.FieldSectionError.TheVariants.{Memory};

    ghost from_gives = { λ _ e. e ≡ Memory };

    fn from(_e: AllocError) -> FieldSectionError {
        FieldSectionError::Memory
    }
}

impl FieldSectionError {
    /// Returns the error code: [`ErrorCode::Decompression`] for a section that cannot be decoded
    /// (RFC 9204, section 6), and `None` otherwise. Exceeding the limit is not an error of the
    /// peer: a server may respond with status code 431 (RFC 9114, section 4.2.2).
    pub fn code(&self) -> Option<ErrorCode>
        ensures { result ≡ field_section_code self.now }
    {
        match self {
            FieldSectionError::Decoding(_) => Some(ErrorCode::Decompression),
            FieldSectionError::TooLarge | FieldSectionError::Memory => None,
        }
    }
}

/// A list of fields, each with a name and a value, both bytes. Names may be repeated. The order is
/// that of the section.
#[derive(Debug, Drop)]
pub struct FieldList {
    // the names and values of all fields
    texts: Vec<u8>,
    places: Vec<Place>,
}

// In contracts, a list is its fields: pairs of name and value, as bytes.
impl Model for FieldList {
    ghost use Rattle.std.specs.Prelude.{List, length};
    ghost use Rattle.wtp_qpack.specs.Field.{Field};
    ghost use Rattle.wtp_fields.specs.FieldList.{all_stored, AreWithin};

    ghost Value = { List Field };

    ghost view = { λ list. all_stored list.texts.items list.places.items };

    ghost invariant = { λ list. AreWithin (length list.texts.items) list.places.items };
}

impl FieldList {
    /// Returns the empty list, without allocating.
    fn empty(alloc: Global) -> Self
        ensures { result ≡ [] }
    {
        FieldList {
            texts: Vec::new(alloc),
            places: Vec::new(alloc),
        }
    }

    /// Returns the empty list, with memory for a list of this size if there is any. The size is that
    /// of the limit of [`FieldList::decode`].
    pub fn with_room(alloc: Global, size: usize) -> Self
        ensures { result ≡ [] }
    {
        FieldList {
            texts: with_room(alloc, size),
            // the size of each field is at least 32
            places: with_room(alloc, size / 32),
        }
    }

    /// Appends a field as it was received: neither its name nor its value is checked.
    /// [`FieldList::push`] appends one that is to be sent.
    ///
    /// Returns [`AllocError`] if allocation fails; the list is then unchanged.
    pub fn append(&mut self, name: &[u8], value: &[u8]) -> Result<(), AllocError>
        ensures ok { OnOk result (self.new ≡ self.old ++ (name.now, value.now) ∷ []) }
        ensures err { OnErr result (self.new ≡ self.old) }
    {
        append_field(&mut self.texts, &mut self.places, name, value)
    }

    /// Decodes a field section to its fields, in order (RFC 9204, section 4.5).
    ///
    /// `limit` bounds the size of the list: for each field, the decoded lengths of its name and its
    /// value in bytes, plus 32 (RFC 9114, section 4.2.2). The limit is checked before a field is
    /// copied.
    ///
    /// Stops at the first faulty line in byte order: returns [`FieldSectionError::Decoding`] if it
    /// cannot be decoded, and [`FieldSectionError::TooLarge`] if the size exceeds the limit with
    /// it. An invalid prefix of the section is also a [`FieldSectionError::Decoding`].
    ///
    /// Returns [`FieldSectionError::Memory`] only if allocation failed, at a line after valid ones
    /// that has a Huffman-encoded string, or that is valid and does not exceed the limit. The
    /// section can then be decoded again.
    pub fn decode(alloc: Global, section: &[u8], limit: u64) -> Result<Self, FieldSectionError>
        ensures read { DecodesTo limit section.now result }
        ensures no_fault { IfErr result (λ e. e ≢ FieldSectionError.Decoding decoding.Memory) }
    {
        let mut lines = FieldLines::new(section)?;
        let mut room = FieldBuffer::new(alloc);
        // A Huffman-encoded text is rarely longer than twice its encoding; one of the static table
        // has a byte or two.
        let size = section.len().saturating_mul(2).max(256) as u64;
        let mut list = FieldList::with_room(alloc, size.min(limit) as usize);
        let mut left = limit;
        'lines: loop {
            match lines.next_line(&mut room) {
                None => return Ok(list),
                Some(Err(fault)) => return Err(FieldSectionError::from(fault)),
                Some(Ok(line)) => match left_after(left, line) {
                    None => return Err(FieldSectionError::TooLarge),
                    Some(less) => {
                        left = less;
                        list.append(line.name, line.value)?;
                    }
                },
            }
        }
    }

    /// Returns the number of fields.
    pub fn len(&self) -> usize
        ensures { result ≡ length self.now }
    {
        self.places.len()
    }

    /// Returns whether the list is empty.
    pub fn is_empty(&self) -> bool
        ensures { result ≡ (length self.now == 0) }
    {
        self.places.is_empty()
    }

    /// Returns the field at an index, or `None` if the index is out of bounds.
    pub fn get(&self, index: usize) -> Option<FieldLine<'_>>
        ensures { option_map seen_line result ≡ slice_get self.now index }
    {
        match self.places.get(index) {
            Some(place) => Some(line_at(self.texts.as_slice(), *place)),
            None => None,
        }
    }

    /// Returns an iterator over the fields in order.
    pub fn iter(&self) -> Fields<'_>
        ensures { result ≡ self.now }
    {
        Fields::new(self.texts.as_slice(), self.places.as_slice())
    }

    /// Returns an iterator over the values of all fields with a name, in order.
    pub fn all<'a>(&'a self, name: &'a [u8]) -> Values<'a>
        ensures { result ≡ values_of name.now self.now }
    {
        Values::new(self.iter(), name)
    }

    /// Returns the value of the first field with a name, or `None` if there is none.
    pub fn first(&self, name: &[u8]) -> Option<&[u8]>
        ensures { option_copied result ≡ field_value name.now self.now }
    {
        let mut fields = self.iter();
        while let Some(field) = fields.next() {
            if field.name == name {
                return Some(field.value);
            }
        }
        None
    }

    /// Returns the value of the last field with a name, or `None` if there is none.
    pub fn last(&self, name: &[u8]) -> Option<&[u8]>
        ensures { option_copied result ≡ last_value name.now self.now }
    {
        let mut found: Option<&[u8]> = None;
        let mut fields = self.iter();
        while let Some(field) = fields.next() {
            if field.name == name {
                found = Some(field.value);
            }
        }
        found
    }
}

/// Subtracts the size of a field from a limit: the lengths of its name and its value in bytes, plus
/// 32 (RFC 9114, section 4.2.2). Returns `None` if the size exceeds the limit.
pub fn left_after(left: u64, line: FieldLine<'_>) -> Option<u64>
    ensures { SomeIff result (field_size (seen_line line.entry) ≤ left)
        (left - field_size (seen_line line.entry)) }
{
    let left = left.checked_sub(32)?;
    let left = left.checked_sub(line.name.len() as u64)?;
    left.checked_sub(line.value.len() as u64)
}
