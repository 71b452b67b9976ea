//! The lines of a section, one by one (RFC 9204, section 4.5).

ghost use Rattle.std.specs.Prelude.{◌≡◌, ◌*◌, ◌<◌, IsTrue, IfSome, OnOk, Some, Err, [], length};
ghost use Rattle.std.specs.Vec.{vec_capacity};
ghost use Rattle.wtp_dynamic.specs.declared.error.SectionError.TheVariants.{Memory};
ghost use Rattle.wtp_qpack.specs.StringLiteral.{Grows};
ghost use Rattle.wtp_dynamic.specs.Section.{is_coded_line, is_never};
ghost use Rattle.wtp_dynamic.specs.SectionView.{prefix_of};
ghost use Rattle.wtp_dynamic_decoder.specs.Lines.{room_bytes, TakesLine};

use std::alloc::Global;
use std::marker::Model;
use wtp_dynamic::error::SectionError;
use wtp_dynamic::section::{self, Prefix};
use wtp_dynamic::table::DynamicTable;
use wtp_qpack::qpack::FieldLine;

/// Where the Huffman texts of a line are decoded: one block of memory, for the name and the value
/// after it. One room serves any number of sections.
#[derive(Drop)]
pub struct LineRoom {
    texts: Vec<u8>,
}

impl LineRoom {
    /// Creates an empty room. Nothing is allocated.
    pub fn new(alloc: Global) -> Self
        ensures { (result.texts.items ≡ []) × (room_bytes result ≡ 0) }
    {
        LineRoom {
            texts: Vec::new(alloc),
        }
    }
}

/// The lines of a section that does not wait.
#[derive(Drop)]
pub struct SectionLines<'a> {
    prefix: Prefix<'a>,
    rest: &'a [u8],
}

// Contracts treat the lines as the section's prefix and the bytes that were not read yet.
impl<'a> Model for SectionLines<'a> {
    ghost use Rattle.std.specs.Prelude.{ℕ, List};
    ghost use Rattle.wtp_dynamic.specs.Section.{Prefix};
    ghost use Rattle.wtp_dynamic.specs.SectionView.{prefix_of};

    ghost Value = { Prefix × List ℕ };

    ghost view = { λ lines. (prefix_of lines.prefix, lines.rest.now) };
}

impl<'a> SectionLines<'a> {
    /// Returns the lines after a prefix.
    pub fn new(prefix: Prefix<'a>) -> Self
        ensures { result ≡ (prefix_of prefix.entry, prefix.entry.lines.now) }
    {
        SectionLines {
            prefix,
            rest: prefix.lines,
        }
    }

    /// Returns the Required Insert Count of the section.
    pub fn required(&self) -> u64
        ensures { result ≡ self.now.0.required }
    {
        self.prefix.required
    }

    /// Returns whether the next line is never indexed (the bit N): whoever passes its field on must
    /// not refer to a table for the value (section 7.1.3). After the last line it is `false`.
    pub fn is_never_indexed(&self) -> bool
        ensures { result ≡ is_never self.now.1 }
    {
        section::is_never_indexed(self.rest)
    }

    /// Takes the next line. Returns `None` after the last. Huffman texts are decoded in `room`, and
    /// all others are where they are: in the section, or in one of the tables.
    ///
    /// Returns the fault of the line, if it has one. Returns [`SectionError::Memory`] only if
    /// `room` has less than twice the bytes that are left, and the line has a Huffman text that is
    /// there, with no fault before it. On an error no line is taken, so the next call reads the
    /// same line. Each call takes any table; the lines of one section are read with the table of the
    /// decoder that opened it, if the caller passes that one each time.
    #[tactic(auto, using(wtp_dynamic::proofs::Answered::table_line_shorter))]
    pub fn next_line<'r>(
        &mut self,
        table: &'a DynamicTable,
        room: &'r mut LineRoom,
    ) -> Option<Result<FieldLine<'r>, SectionError>>
    where
        'a: 'r,
        ensures section { self.new.0 ≡ self.old.0 }
        ensures line { TakesLine table.now self.old.0 self.old.1 self.new.1 result }
        // A line has at least one byte, so there is an end to the lines.
        ensures shorter { IfSome result
            (λ taken. OnOk taken (length self.new.1 < length self.old.1)) }
        ensures memory { result ≡ Some (Err Memory)
            → IsTrue (is_coded_line table.now self.old.0 self.old.1)
            × (room_bytes room.old < length self.old.1 * 2) }
    {
        if self.rest.is_empty() {
            return None;
        }
        match section::read_line(&mut room.texts, table, &self.prefix, self.rest) {
            Ok(parts) => {
                self.rest = parts.rest;
                let (name, value) = room.texts.as_slice().split_at(parts.middle);
                Some(Ok(FieldLine {
                    name: parts.name.unwrap_or(name),
                    value: parts.value.unwrap_or(value),
                }))
            }
            Err(fault) => Some(Err(fault)),
        }
    }
}
