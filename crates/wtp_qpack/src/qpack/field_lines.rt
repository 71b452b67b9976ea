//! Field lines one by one, in their order and with repeated names, as bytes (RFC 9204, section
//! 4.5).

ghost use Rattle.std.specs.Prelude.{◌≡◌, ◌*◌, ◌<◌, length, IsTrue, IfSome, OnOk, Some, Err};
ghost use Rattle.wtp_qpack.specs.declared.qpack.DecodingError.TheVariants.{Memory};
ghost use Rattle.wtp_qpack.specs.Qpack.{Gives};
ghost use Rattle.wtp_qpack.specs.FieldSection.{after_prefix};
ghost use Rattle.wtp_qpack.specs.FieldLines.{IsEmptyRoom, room_bytes, TakesLine, is_coded_line};

use super::string_literal::Texts;
use super::{DecodingError, field_line, field_section};
use std::alloc::Global;
use std::marker::Model;

/// Where the Huffman texts of a line are decoded: one block of memory, for the name and the value
/// after it. One room serves any number of sections. [`FieldLines::next_line`] returns
/// [`DecodingError::Memory`] only at a Huffman text, and only if the room has less than twice the
/// bytes that are left of the section.
///
/// The private `field_line::read`, which reads the line, also ensures that the room never shrinks,
/// and allocates only in that case, to at least that size: at most once for each section. The
/// contract of `next_line` does not say so.
#[derive(Debug, Drop)]
pub struct FieldBuffer {
    texts: Vec<u8>,
}

impl FieldBuffer {
    /// Creates an empty room. Nothing is allocated.
    pub fn new(alloc: Global) -> Self
        ensures { IsEmptyRoom result }
    {
        FieldBuffer {
            texts: Vec::new(alloc),
        }
    }
}

/// A field line: its name and its value. Each is in the section or in the static table as it is, or
/// decoded in the room.
#[derive(Clone, Copy, Debug, PartialEq, Eq)]
pub struct FieldLine<'r> {
    /// The name, which need not be UTF-8.
    pub name: &'r [u8],
    /// The value, which need not be UTF-8.
    pub value: &'r [u8],
}

/// The field lines of a section, one by one.
#[derive(Debug, Drop)]
pub struct FieldLines<'a> {
    rest: &'a [u8],
}

// Contracts treat the lines as the bytes that were not read yet.
impl<'a> Model for FieldLines<'a> {
    ghost use Rattle.std.specs.Prelude.{ℕ, List};

    ghost Value = { List ℕ };

    ghost view = { λ lines. lines.rest.now };
}

impl<'a> FieldLines<'a> {
    /// Returns the lines of a section, after its prefix.
    ///
    /// Returns the fault of the prefix, if it has one.
    pub fn new(section: &'a [u8]) -> Result<Self, DecodingError>
        ensures { Gives (λ lines. lines) result (after_prefix section.now) }
    {
        match field_section::skip_prefix(section) {
            Ok(rest) => Ok(FieldLines { rest }),
            Err(fault) => Err(fault),
        }
    }

    /// Takes the next line. Returns `None` after the last. Huffman texts are decoded in `room`,
    /// all others are where they are.
    ///
    /// Returns the fault of the line, if it has one. Returns [`DecodingError::Memory`] only if
    /// `room` has less than twice the bytes that are left, and the line has a Huffman text that is
    /// there, with no fault before it. On an error no line is taken, so the next call reads the
    /// same line.
    #[tactic(auto, using(crate::proofs::SectionReading::line_shorter))]
    pub fn next_line<'r>(
        &mut self,
        room: &'r mut FieldBuffer,
    ) -> Option<Result<FieldLine<'r>, DecodingError>>
    where
        'a: 'r,
        ensures line { TakesLine self.old self.new result }
        // A line has at least one byte, so there is an end to the lines.
        ensures shorter { IfSome result (λ taken. OnOk taken (length self.new < length self.old)) }
        ensures memory { result ≡ Some (Err Memory)
            → IsTrue (is_coded_line self.old) × (room_bytes room.old < length self.old * 2) }
    {
        if self.rest.is_empty() {
            return None;
        }
        match field_line::read(&mut room.texts, Texts::Octets, self.rest) {
            Ok(parts) => {
                self.rest = parts.rest;
                let (name, value) = parts.texts(room.texts.as_slice());
                Some(Ok(FieldLine { name, value }))
            }
            Err(fault) => Some(Err(fault)),
        }
    }
}
