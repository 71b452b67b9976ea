//! Field sections with the dynamic table (RFC 9204, section 4.5).

ghost use Rattle.std.specs.Prelude.{◌≡◌, ℕ, List, ◌<◌, ◌≤◌, ◌*◌, ◌||◌, length, IfOk, IsTrue, Err};
ghost use Rattle.std.specs.Vec.{vec_len, vec_capacity};
ghost use Rattle.wtp_qpack.specs.FieldLine.{bit};
ghost use Rattle.wtp_qpack.specs.StringLiteral.{octets_at};
ghost use Rattle.wtp_dynamic.specs.declared.error.SectionError.TheVariants.{Memory};
ghost use Rattle.wtp_dynamic.specs.Faults.{Reads};
ghost use Rattle.wtp_qpack.specs.StringLiteral.{is_coded, Grows};
ghost use Rattle.wtp_dynamic.specs.Rooms.{ReadsParts};
ghost use Rattle.wtp_dynamic.specs.Table.{insert_count};
ghost use Rattle.wtp_dynamic.specs.Section.{base_of, required_by, prefix_at, is_blocked, entry_at, entry_line_at, name_line_at, literal_line_at, reference_of, line_by, table_line_at, value_is_coded, coded_by, is_coded_line, is_never};
ghost use Rattle.wtp_dynamic.specs.SectionView.{prefix_of};

use crate::bits::has_bit;
use crate::error::SectionError;
use crate::insert_count;
use crate::table::DynamicTable;
use wtp_qpack::parts::{Parts, Texts, has_flag, read_integer, read_string, static_entry};

/// The prefix of a section, and the bytes of its lines.
#[derive(Clone, Copy)]
pub struct Prefix<'a> {
    /// The Required Insert Count.
    pub required: u64,
    /// The Base.
    pub base: u64,
    /// The bytes of the lines.
    pub lines: &'a [u8],
}

/// What an index of a line refers to.
#[derive(Clone, Copy)]
pub enum Reference {
    /// An entry of the static table.
    Static,
    /// An entry of the dynamic table, counted back from the one before the Base.
    Back,
    /// An entry of the dynamic table, counted on from the one at the Base.
    On,
}

/// Returns the Base by the sign and the Delta Base.
fn base_of(is_negative: bool, required: u64, delta: u64) -> Result<u64, SectionError>
    ensures { Reads (λ base. base) result (base_of is_negative required delta) }
{
    if is_negative {
        if delta < required {
            Ok(required - delta - 1)
        } else {
            Err(SectionError::NegativeBase)
        }
    } else {
        match required.checked_add(delta) {
            Some(base) => Ok(base),
            None => Err(SectionError::IntegerOverflow),
        }
    }
}

/// Returns the Required Insert Count of an encoded number.
fn required_by(table: &DynamicTable, encoded: u64) -> Result<u64, SectionError>
    ensures { Reads (λ count. count) result (required_by table.now encoded) }
{
    match insert_count::decode(table.limit() / 32, table.insert_count(), encoded) {
        Some(count) => Ok(count),
        None => Err(SectionError::InvalidInsertCount),
    }
}

/// Reads the prefix of a section.
///
/// The encoded count is judged before the Base is read.
#[tactic(auto, unfolding(crate::specs::Section::prefix_at))]
pub fn read_prefix<'a>(table: &DynamicTable, section: &'a [u8]) -> Result<Prefix<'a>, SectionError>
    ensures { Reads prefix_of result (prefix_at table.now section.now) }
{
    let (encoded, rest) = read_integer::<8>(section)?;
    let required = required_by(table, encoded)?;
    let (delta, lines) = read_integer::<7>(rest)?;
    let base = base_of(has_flag::<7>(rest), required, delta)?;
    Ok(Prefix {
        required,
        base,
        lines,
    })
}

/// Returns whether a section has to wait for insertions.
pub fn is_blocked(table: &DynamicTable, prefix: &Prefix<'_>) -> bool
    ensures { result ≡ is_blocked table.now (prefix_of prefix.now) }
{
    table.insert_count() < prefix.required
}

/// Returns the entry of an index. One of the dynamic table has to be below the Required Insert
/// Count and live.
fn entry<'t>(
    table: &'t DynamicTable,
    prefix: &Prefix<'_>,
    reference: Reference,
    index: u64,
) -> Result<(&'t [u8], &'t [u8]), SectionError>
    ensures { Reads (λ e. (e.0.now, e.1.now)) result
        (entry_at reference table.now (prefix_of prefix.now) index) }
{
    let place = match reference {
        Reference::Static => {
            return match static_entry(index) {
                Some((name, value)) => Ok((name.as_bytes(), value.as_bytes())),
                None => Err(SectionError::IndexNotFound),
            };
        }
        Reference::Back => {
            if index >= prefix.base {
                return Err(SectionError::EntryNotFound);
            }
            prefix.base - 1 - index
        }
        Reference::On => match prefix.base.checked_add(index) {
            Some(place) => place,
            None => return Err(SectionError::EntryNotFound),
        },
    };
    if place >= prefix.required {
        return Err(SectionError::EntryNotFound);
    }
    match table.get(place) {
        Some(entry) => Ok(entry),
        None => Err(SectionError::EntryNotFound),
    }
}

/// Reads an index, and returns its entry and the bytes after the index.
#[tactic(auto, unfolding(crate::specs::Section::entry_line_at))]
fn find_entry<'a, const N: u32>(
    table: &'a DynamicTable,
    prefix: &Prefix<'a>,
    reference: Reference,
    bytes: &'a [u8],
) -> Result<((&'a [u8], &'a [u8]), &'a [u8]), SectionError>
    requires some { 1 ≤ N }
    requires few { N ≤ 7 }
    ensures read { Reads (λ x. ((x.0.0.now, x.0.1.now), x.1.now)) result
        (entry_line_at reference N table.now (prefix_of prefix.now) bytes.now) }
    ensures memory { ¬ (result ≡ Err Memory) }
{
    let (index, rest) = read_integer::<N>(bytes)?;
    let found = entry(table, prefix, reference, index)?;
    Ok((found, rest))
}

/// Reads the field of an entry.
fn read_entry<'a, const N: u32>(
    table: &'a DynamicTable,
    prefix: &Prefix<'a>,
    reference: Reference,
    bytes: &'a [u8],
) -> Result<Parts<'a>, SectionError>
    requires some { 1 ≤ N }
    requires few { N ≤ 7 }
    ensures read { (room : List ℕ) → ReadsParts room result
        (entry_line_at reference N table.now (prefix_of prefix.now) bytes.now) }
    ensures middle { IfOk result (λ parts. parts.middle ≡ 0) }
    ensures memory { ¬ (result ≡ Err Memory) }
{
    match find_entry::<N>(table, prefix, reference, bytes) {
        Ok(((name, value), rest)) => Ok(Parts {
            name: Some(name),
            value: Some(value),
            middle: 0,
            rest,
        }),
        Err(fault) => Err(fault),
    }
}

/// Reads the name of an entry, and a value.
#[tactic(auto, using(crate::proofs::Answered::entry_shorter), unfolding(crate::specs::Section::name_line_at))]
fn read_name<'a, const N: u32>(
    room: &mut Vec<u8>,
    table: &'a DynamicTable,
    prefix: &Prefix<'a>,
    reference: Reference,
    bytes: &'a [u8],
) -> Result<Parts<'a>, SectionError>
    requires some { 1 ≤ N }
    requires few { N ≤ 7 }
    requires none { vec_len room.old ≡ 0 }
    ensures read { ReadsParts room.new.items result
        (name_line_at reference N table.now (prefix_of prefix.now) bytes.now) }
    ensures middle { IfOk result (λ parts. parts.middle ≡ 0) }
    ensures once { Grows (value_is_coded (entry_line_at reference N table.now (prefix_of prefix.now) bytes.now))
        (length bytes.now * 2) (vec_capacity room.old) (vec_capacity room.new) }
    ensures memory { result ≡ Err Memory
        → IsTrue (value_is_coded (entry_line_at reference N table.now (prefix_of prefix.now) bytes.now))
        × (vec_capacity room.old < length bytes.now * 2) }
{
    let ((name, _), rest) = find_entry::<N>(table, prefix, reference, bytes)?;
    let (value, rest) = read_string::<7>(room, bytes.len() * 2, Texts::Octets, rest)?;
    Ok(Parts {
        name: Some(name),
        value,
        middle: 0,
        rest,
    })
}

/// Reads a name and a value.
#[tactic(auto, unfolding(crate::specs::Section::literal_line_at))]
fn read_literal<'a>(room: &mut Vec<u8>, bytes: &'a [u8]) -> Result<Parts<'a>, SectionError>
    requires none { vec_len room.old ≡ 0 }
    ensures read { ReadsParts room.new.items result (literal_line_at bytes.now) }
    ensures middle { IfOk result (λ parts. parts.middle ≤ vec_len room.new) }
    ensures once { Grows (is_coded 3 bytes.now || value_is_coded (octets_at 3 bytes.now))
        (length bytes.now * 2) (vec_capacity room.old) (vec_capacity room.new) }
    ensures memory { result ≡ Err Memory
        → IsTrue (is_coded 3 bytes.now || value_is_coded (octets_at 3 bytes.now))
        × (vec_capacity room.old < length bytes.now * 2) }
{
    let most = bytes.len() * 2;
    let (name, rest) = read_string::<3>(room, most, Texts::Octets, bytes)?;
    let middle = room.len();
    let (value, rest) = read_string::<7>(room, most, Texts::Octets, rest)?;
    Ok(Parts {
        name,
        value,
        middle,
        rest,
    })
}

/// Returns whether the line at the start is never indexed: whoever passes the field on must not
/// refer to a table for its value (section 7.1.3).
#[tactic(auto, unfolding(crate::specs::Section::is_never))]
pub fn is_never_indexed(bytes: &[u8]) -> bool
    ensures { result ≡ is_never bytes.now }
{
    let [first, ..] = bytes else {
        return false;
    };
    match (
        has_bit(*first, 7),
        has_bit(*first, 6),
        has_bit(*first, 5),
        has_bit(*first, 4),
    ) {
        (true, _, _, _) => false,
        (false, true, never, _) => never,
        (false, false, true, never) => never,
        (false, false, false, true) => false,
        (false, false, false, false) => has_bit(*first, 3),
    }
}

/// Returns the table that the bit T refers to.
fn reference_of(is_static: bool) -> Reference
    ensures { result ≡ reference_of is_static }
{
    if is_static {
        Reference::Static
    } else {
        Reference::Back
    }
}

/// Reads the line at the start, whose first byte is given.
fn read_as<'a>(
    room: &mut Vec<u8>,
    table: &'a DynamicTable,
    prefix: &Prefix<'a>,
    first: u8,
    bytes: &'a [u8],
) -> Result<Parts<'a>, SectionError>
    requires none { vec_len room.old ≡ 0 }
    ensures read { ReadsParts room.new.items result (line_by (bit 7 first) (bit 6 first)
        (bit 5 first) (bit 4 first) table.now (prefix_of prefix.now) bytes.now) }
    ensures middle { IfOk result (λ parts. parts.middle ≤ vec_len room.new) }
    ensures once { Grows (coded_by (bit 7 first) (bit 6 first) (bit 5 first) (bit 4 first)
        table.now (prefix_of prefix.now) bytes.now)
        (length bytes.now * 2) (vec_capacity room.old) (vec_capacity room.new) }
    ensures memory { result ≡ Err Memory → IsTrue (coded_by (bit 7 first) (bit 6 first)
        (bit 5 first) (bit 4 first) table.now (prefix_of prefix.now) bytes.now)
        × (vec_capacity room.old < length bytes.now * 2) }
{
    match (
        has_bit(first, 7),
        has_bit(first, 6),
        has_bit(first, 5),
        has_bit(first, 4),
    ) {
        (true, is_static, _, _) => read_entry::<6>(table, prefix, reference_of(is_static), bytes),
        (false, true, _, is_static) => {
            read_name::<4>(room, table, prefix, reference_of(is_static), bytes)
        }
        (false, false, true, _) => read_literal(room, bytes),
        (false, false, false, true) => read_entry::<4>(table, prefix, Reference::On, bytes),
        (false, false, false, false) => {
            read_name::<3>(room, table, prefix, Reference::On, bytes)
        }
    }
}

/// Reads the line at the start. Its Huffman texts are all that `room` contains afterwards.
#[tactic(auto, unfolding(crate::specs::Section::table_line_at, crate::specs::Section::is_coded_line))]
pub fn read_line<'a>(
    room: &mut Vec<u8>,
    table: &'a DynamicTable,
    prefix: &Prefix<'a>,
    bytes: &'a [u8],
) -> Result<Parts<'a>, SectionError>
    ensures read { ReadsParts room.new.items result
        (table_line_at table.now (prefix_of prefix.now) bytes.now) }
    ensures middle { IfOk result (λ parts. parts.middle ≤ vec_len room.new) }
    ensures once { Grows (is_coded_line table.now (prefix_of prefix.now) bytes.now)
        (length bytes.now * 2) (vec_capacity room.old) (vec_capacity room.new) }
    ensures memory { result ≡ Err Memory
        → IsTrue (is_coded_line table.now (prefix_of prefix.now) bytes.now)
        × (vec_capacity room.old < length bytes.now * 2) }
{
    room.clear();
    match bytes {
        [] => Err(SectionError::UnexpectedEnd),
        [first, ..] => read_as(room, table, prefix, *first, bytes),
    }
}
