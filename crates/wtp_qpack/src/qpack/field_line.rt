//! Field lines (RFC 9204, sections 4.5.2 to 4.5.6).

ghost use Rattle.std.specs.Prelude.{◌≡◌, ℕ, List, length, ◌*◌, ◌≤◌, ◌++◌, ◌<◌, IfOk, OnOk, IsTrue};
ghost use Rattle.std.specs.Prelude.{Err, IsUtf8, string_bytes};
ghost use Rattle.std.specs.Vec.{vec_len, vec_capacity};
ghost use Rattle.wtp_huffman.specs.HuffmanEncoding.{BeginsWith};
ghost use Rattle.wtp_qpack.specs.declared.qpack.DecodingError.TheVariants.{Memory};
ghost use Rattle.wtp_qpack.specs.declared.qpack.string_literal.Texts.TheVariants.{Utf8};
ghost use Rattle.wtp_qpack.specs.Field.{IsText};
ghost use Rattle.wtp_qpack.specs.Qpack.{Gives, GivesUnlessMemory};
ghost use Rattle.wtp_qpack.specs.StaticTable.{entry_at, first_entry, exact_entry};
ghost use Rattle.wtp_qpack.specs.StringLiteral.{Grows};
ghost use Rattle.wtp_qpack.specs.FieldLine.{bit, table_of, representation_of, or_not_found};
ghost use Rattle.wtp_qpack.specs.FieldLine.{indexed_at, name_reference_in, literal_name_in};
ghost use Rattle.wtp_qpack.specs.FieldLine.{line_by, line_in, line_at, named_entry_at};
ghost use Rattle.wtp_qpack.specs.FieldLine.{value_is_coded, has_coded, is_coded_in, NeedsMemory};
ghost use Rattle.wtp_qpack.specs.FieldLine.{line_view, parts_view, GivesParts};
ghost use Rattle.wtp_qpack.specs.FieldLine.{has_value, encoded_line, line_of};
ghost use Rattle.wtp_qpack.specs.FieldLine.{literal_line, shortest_line};

use super::string_literal::Texts;
use super::{DecodingError, integer, static_table, string_literal};
use crate::sensitive::is_sensitive;
use std::alloc::{AllocError, Global};

/// The table that an index refers to, given by the bit T.
#[derive(Clone, Copy)]
pub enum Table {
    /// The static table of the standard, with absolute indices.
    Static,
    /// The dynamic table, which the peer fills. It is not supported.
    Dynamic,
}

/// The representation of a field line, given by its first four bits.
#[derive(Clone, Copy)]
pub enum Representation {
    /// `1T`: the field of an entry.
    Indexed(Table),
    /// `0001`: the field of an entry past the base.
    IndexedPostBase,
    /// `01NT`: the name of an entry, and a value.
    NameReference(Table),
    /// `0000`: the name of an entry past the base, and a value.
    PostBaseNameReference,
    /// `001N`: a name and a value.
    LiteralName,
}

/// A line that was read: its texts that are where they are, and the bytes after the line. A text
/// that is `None` was decoded in a room.
#[derive(Clone, Copy)]
pub struct Parts<'a> {
    /// The name, if it is not in the room.
    pub name: Option<&'a [u8]>,
    /// The value, if it is not in the room.
    pub value: Option<&'a [u8]>,
    /// Where in the room the value begins, after the name.
    pub middle: usize,
    /// The bytes after the line.
    pub rest: &'a [u8],
}

impl<'a> Parts<'a> {
    /// Returns the name and the value, given what was decoded.
    pub fn texts<'r>(self, room: &'r [u8]) -> (&'r [u8], &'r [u8])
    where
        'a: 'r,
        requires { self.middle ≤ length room.now }
        ensures { (result.0.now, result.1.now) ≡ (parts_view room.now self.entry).0 }
    {
        let (name, value) = room.split_at(self.middle);
        (self.name.unwrap_or(name), self.value.unwrap_or(value))
    }
}

/// A field and the bytes after its line.
#[derive(Drop)]
pub struct Line<'a> {
    /// The field's name.
    pub name: String,
    /// The field's value.
    pub value: String,
    /// The bytes after the line.
    pub rest: &'a [u8],
}

/// Returns whether a bit is set, where the lowest bit is 0.
fn has_bit(byte: u8, place: u32) -> bool
    requires { place < 8 }
    ensures { result ≡ bit place byte }
{
    byte >> place & 1 == 1
}

/// Returns the table that the bit T refers to.
fn table_of(is_static: bool) -> Table
    ensures { result ≡ table_of is_static }
{
    if is_static {
        Table::Static
    } else {
        Table::Dynamic
    }
}

/// Returns the representation of the line with this first byte.
pub fn representation_of(first: u8) -> Representation
    ensures { result ≡ representation_of first }
{
    let bits = (
        has_bit(first, 7),
        has_bit(first, 6),
        has_bit(first, 5),
        has_bit(first, 4),
    );
    match bits {
        (true, is_static, _, _) => Representation::Indexed(table_of(is_static)),
        (false, true, _, is_static) => Representation::NameReference(table_of(is_static)),
        (false, false, true, _) => Representation::LiteralName,
        (false, false, false, true) => Representation::IndexedPostBase,
        (false, false, false, false) => Representation::PostBaseNameReference,
    }
}

/// Returns the static entry of an index.
fn entry(index: u64) -> Result<(&'static str, &'static str), DecodingError>
    ensures { Gives (λ e. (e.0.now, e.1.now)) result (or_not_found (entry_at index)) }
{
    match static_table::entry(index) {
        Some(entry) => Ok(entry),
        None => Err(DecodingError::IndexNotfound),
    }
}

/// Reads the field of a static entry.
#[inline(always)]
#[tactic(auto, unfolding(crate::specs::FieldLine::indexed_at))]
fn read_indexed(bytes: &[u8]) -> Result<Parts<'_>, DecodingError>
    ensures read { (room : List ℕ) → GivesParts room result (indexed_at bytes.now) }
    ensures middle { IfOk result (λ parts. parts.middle ≡ 0) }
    ensures memory { ¬ (result ≡ Err Memory) }
{
    let (index, rest) = integer::read::<6>(bytes)?;
    let (name, value) = entry(index)?;
    Ok(Parts {
        name: Some(name.as_bytes()),
        value: Some(value.as_bytes()),
        middle: 0,
        rest,
    })
}

/// Reads the name of a static entry, and a value.
#[inline(always)]
#[tactic(auto, unfolding(crate::specs::FieldLine::name_reference_in))]
fn read_name_reference<'a>(
    room: &mut Vec<u8>,
    texts: Texts,
    bytes: &'a [u8],
) -> Result<Parts<'a>, DecodingError>
    requires none { vec_len room.old ≡ 0 }
    ensures read { GivesParts room.new.items result (name_reference_in texts bytes.now) }
    ensures middle { IfOk result (λ parts. parts.middle ≡ 0) }
    ensures once { Grows (value_is_coded (named_entry_at bytes.now)) (length bytes.now * 2)
        (vec_capacity room.old) (vec_capacity room.new) }
    ensures memory { result ≡ Err Memory → IsTrue (value_is_coded (named_entry_at bytes.now))
        × (vec_capacity room.old < length bytes.now * 2) }
{
    let (index, rest) = integer::read::<4>(bytes)?;
    let (name, _) = entry(index)?;
    let (value, rest) = string_literal::read::<7>(room, bytes.len() * 2, texts, rest)?;
    let name = Some(name.as_bytes());
    Ok(Parts {
        name,
        value,
        middle: 0,
        rest,
    })
}

/// Reads a name and a value.
#[inline(always)]
#[tactic(auto, unfolding(crate::specs::FieldLine::literal_name_in))]
fn read_literal_name<'a>(
    room: &mut Vec<u8>,
    texts: Texts,
    bytes: &'a [u8],
) -> Result<Parts<'a>, DecodingError>
    requires none { vec_len room.old ≡ 0 }
    ensures read { GivesParts room.new.items result (literal_name_in texts bytes.now) }
    ensures middle { IfOk result (λ parts. parts.middle ≤ vec_len room.new) }
    ensures once { Grows (has_coded texts Representation.LiteralName bytes.now)
        (length bytes.now * 2) (vec_capacity room.old) (vec_capacity room.new) }
    ensures memory { result ≡ Err Memory
        → IsTrue (has_coded texts Representation.LiteralName bytes.now)
        × (vec_capacity room.old < length bytes.now * 2) }
{
    let capacity = bytes.len() * 2;
    let (name, rest) = string_literal::read::<3>(room, capacity, texts, bytes)?;
    let middle = room.len();
    let (value, rest) = string_literal::read::<7>(room, capacity, texts, rest)?;
    Ok(Parts {
        name,
        value,
        middle,
        rest,
    })
}

/// Reads the line at the start, of this representation. A line that needs the dynamic table is
/// refused before more of it is read.
#[inline(always)]
fn read_as<'a>(
    room: &mut Vec<u8>,
    texts: Texts,
    representation: Representation,
    bytes: &'a [u8],
) -> Result<Parts<'a>, DecodingError>
    requires none { vec_len room.old ≡ 0 }
    ensures read { GivesParts room.new.items result (line_by texts representation bytes.now) }
    ensures middle { IfOk result (λ parts. parts.middle ≤ vec_len room.new) }
    ensures once { Grows (has_coded texts representation bytes.now) (length bytes.now * 2)
        (vec_capacity room.old) (vec_capacity room.new) }
    ensures memory { result ≡ Err Memory → IsTrue (has_coded texts representation bytes.now)
        × (vec_capacity room.old < length bytes.now * 2) }
{
    match representation {
        Representation::Indexed(Table::Static) => read_indexed(bytes),
        Representation::NameReference(Table::Static) => read_name_reference(room, texts, bytes),
        Representation::LiteralName => read_literal_name(room, texts, bytes),
        Representation::Indexed(Table::Dynamic)
        | Representation::NameReference(Table::Dynamic)
        | Representation::IndexedPostBase
        | Representation::PostBaseNameReference => Err(DecodingError::DynamicNotSupported),
    }
}

/// Reads the line at the start. Its Huffman texts are decoded in `room`; what else that contains
/// afterwards is unspecified.
// Inlined with all that it calls, so that each caller's code knows its `texts`.
#[inline(always)]
pub fn read<'a>(
    room: &mut Vec<u8>,
    texts: Texts,
    bytes: &'a [u8],
) -> Result<Parts<'a>, DecodingError>
    ensures read { GivesParts room.new.items result (line_in texts bytes.now) }
    ensures middle { IfOk result (λ parts. parts.middle ≤ vec_len room.new) }
    ensures once { Grows (is_coded_in texts bytes.now) (length bytes.now * 2)
        (vec_capacity room.old) (vec_capacity room.new) }
    ensures memory { result ≡ Err Memory → IsTrue (is_coded_in texts bytes.now)
        × (vec_capacity room.old < length bytes.now * 2) }
{
    room.clear();
    match bytes {
        [] => Err(DecodingError::UnexpectedFin),
        [first, ..] => read_as(room, texts, representation_of(*first), bytes),
    }
}

/// Returns the text as a string of its size.
fn string_of(alloc: Global, text: &[u8]) -> Result<String, AllocError>
    requires { IsUtf8 text.now }
    ensures { IfOk result (λ string. string_bytes string ≡ text.now) }
{
    String::from_str(alloc, unsafe { str::from_utf8_unchecked(text) })
}

/// Reads the line at the start, as strings. Huffman texts are decoded in `room`, which allocates at
/// most once, for one that has less than twice the bytes.
pub fn read_strings<'a>(
    alloc: Global,
    room: &mut Vec<u8>,
    bytes: &'a [u8],
) -> Result<Line<'a>, DecodingError>
    ensures read { GivesUnlessMemory line_view result (line_at bytes.now) }
    ensures once { Grows (is_coded_in Utf8 bytes.now) (length bytes.now * 2)
        (vec_capacity room.old) (vec_capacity room.new) }
    ensures memory { result ≡ Err Memory → NeedsMemory bytes.now }
{
    let parts = read(room, Texts::Utf8, bytes)?;
    let (name, value) = parts.texts(room.as_slice());
    Ok(Line {
        name: string_of(alloc, name)?,
        value: string_of(alloc, value)?,
        rest: parts.rest,
    })
}

/// Returns whether the static entry of an index has this value.
fn is_value(index: usize, value: &[u8]) -> bool
    ensures { result ≡ has_value (entry_at index) value.now }
{
    match static_table::entry(index as u64) {
        Some((_, known)) => known.as_bytes() == value,
        None => false,
    }
}

/// The fact that a text is UTF-8 of fewer than 2^64 bytes.
fn is_text(text: &str)
    ensures { IsText text.now }
{}

/// Appends the line of a field, by the index of the first static entry of its name.
fn write_by(
    out: &mut Vec<u8>,
    index: Option<usize>,
    name: &[u8],
    value: &[u8],
) -> Result<(), AllocError>
    ensures ok { OnOk result (out.new.items
        ≡ out.old.items ++ line_of index (name.now, value.now)) }
    ensures front { BeginsWith out.old.items out.new.items }
{
    match index {
        None => {
            string_literal::write::<3>(out, 0b10, name)?;
            string_literal::write::<7>(out, 0, value)
        }
        Some(index) => {
            if is_value(index, value) {
                integer::write::<6>(out, 0b11, index as u64)
            } else {
                integer::write::<4>(out, 0b0101, index as u64)?;
                string_literal::write::<7>(out, 0, value)
            }
        }
    }
}

/// Appends the line of a field.
///
/// Returns [`AllocError`] if allocation fails. Then `out` begins with what it contained before, and
/// what follows is unspecified.
#[tactic(auto, unfolding(crate::specs::FieldLine::encoded_line))]
pub fn write(out: &mut Vec<u8>, name: &str, value: &str) -> Result<(), AllocError>
    ensures ok { OnOk result (out.new.items ≡ out.old.items ++ encoded_line (name.now, value.now)) }
    ensures front { BeginsWith out.old.items out.new.items }
    ensures texts { IsText name.now × IsText value.now }
{
    is_text(name);
    is_text(value);
    write_by(
        out,
        static_table::first_entry_of(name.as_bytes()),
        name.as_bytes(),
        value.as_bytes(),
    )
}

/// Returns the index of the static entry that is a field, given the first entry with its name.
#[tactic(auto, using(crate::proofs::ShortestLines::none_exact, crate::proofs::ShortestLines::exact_is))]
fn exact_entry(first: Option<usize>, name: &[u8], value: &[u8]) -> Option<u64>
    requires { first ≡ first_entry name.now }
    ensures { result ≡ exact_entry (name.now, value.now) }
{
    match first {
        Some(first) => static_table::entry_of(first as u64, name, value),
        None => None,
    }
}

/// Appends the literal of a field, with the name of a static entry or its own, and with the bit N if
/// the field is never indexed.
fn write_literal(
    out: &mut Vec<u8>,
    never: bool,
    named: Option<usize>,
    name: &[u8],
    value: &[u8],
) -> Result<(), AllocError>
    ensures ok { OnOk result (out.new.items
        ≡ out.old.items ++ literal_line never named (name.now, value.now)) }
    ensures front { BeginsWith out.old.items out.new.items }
{
    match named {
        Some(index) => {
            let flags = if never { 0b0111 } else { 0b0101 };
            integer::write::<4>(out, flags, index as u64)?;
            string_literal::write::<7>(out, 0, value)
        }
        None => {
            let flags = if never { 0b11 } else { 0b10 };
            string_literal::write::<3>(out, flags, name)?;
            string_literal::write::<7>(out, 0, value)
        }
    }
}

/// Appends the shortest line of a field without the dynamic table. The name and the value need not be
/// UTF-8.
///
/// It is the index of the static entry with this name and value (RFC 9204, section 4.5.2), or else a
/// literal, with the first static entry that has the name (section 4.5.4) or with the name itself
/// (section 4.5.6). A literal has the bit N if the field [is sensitive](crate::sensitive::is_sensitive).
///
/// Returns [`AllocError`] if allocation fails. Then `out` begins with what it contained before, and
/// what follows is unspecified.
#[tactic(auto, unfolding(crate::specs::FieldLine::shortest_line))]
pub fn write_shortest(out: &mut Vec<u8>, name: &[u8], value: &[u8]) -> Result<(), AllocError>
    ensures ok { OnOk result (out.new.items ≡ out.old.items ++ shortest_line (name.now, value.now)) }
    ensures front { BeginsWith out.old.items out.new.items }
{
    let first = static_table::first_entry_of(name);
    match exact_entry(first, name, value) {
        Some(index) => integer::write::<6>(out, 0b11, index),
        None => write_literal(out, is_sensitive(name, value), first, name, value),
    }
}
