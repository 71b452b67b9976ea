//! Laws of prefixed integers, string literals, field lines and field sections.
ghost use Rattle.std.specs.Prelude.{◌≡◌, ◌↔◌, ◌⊎◌, ℕ, ◌+◌, ◌^◌, ◌<◌, ◌≤◌, List, [], ◌++◌, length};
ghost use Rattle.std.specs.Prelude.{Some, Ok, Err, MatchResult};
ghost use Rattle.wtp_qpack.specs.declared.qpack.DecodingError.{DecodingError};
ghost use Rattle.wtp_qpack.specs.declared.qpack.DecodingError.TheVariants.{UnexpectedFin};
ghost use Rattle.wtp_qpack.specs.declared.qpack.DecodingError.TheVariants.{IntegerOverflow};
ghost use Rattle.wtp_qpack.specs.declared.qpack.DecodingError.TheVariants.{InvalidString, Memory};
ghost use Rattle.wtp_huffman.specs.Huffman.{IsHuffman};
ghost use Rattle.wtp_qpack.specs.Field.{Field, fields_of_texts, fields_of, IsText, AreTexts};
ghost use Rattle.wtp_qpack.specs.Field.{IsMap, field_map, field_value, last_value};
ghost use Rattle.wtp_qpack.specs.Integer.{IsInt, IsOverflow, IsCutInteger, integer_at};
ghost use Rattle.wtp_qpack.specs.Integer.{shortest_int};
ghost use Rattle.wtp_qpack.specs.StringLiteral.{IsString, huffman_text, string_at, encoded_string};
ghost use Rattle.wtp_qpack.specs.FieldLine.{line_at, encoded_line};
ghost use Rattle.wtp_qpack.specs.FieldSection.{after_prefix, AreLines, ReachesLine, section_at};
ghost use Rattle.wtp_qpack.specs.FieldSection.{map_at, section_of};

use crate::qpack::{Decoder, DecodingError, Encoder};
use std::alloc::Global;
use std::collections::BTreeMap;

/// Reading an integer agrees with the relations of RFC 7541, section 5.1: bytes that start with an
/// encoding of an integer are read as that integer, whatever follows; those that exceed 2^64 - 1
/// with their last byte are an overflow; bytes that end before either are truncated; and there is
/// no other result. What is written is an encoding of its number, and no encoding is shorter.
pub fn prefixed_integers()
    ensures read { (n v : ℕ) (s rest : List ℕ) → IsInt n v s
        → integer_at n (s ++ rest) ≡ Ok (v, rest) }
    ensures found { (n v : ℕ) (bytes rest : List ℕ) → n ≤ 8 → integer_at n bytes ≡ Ok (v, rest)
        → (s : List ℕ) × IsInt n v s × (bytes ≡ s ++ rest) }
    ensures overflow { (n : ℕ) (s rest : List ℕ) → IsOverflow n s
        → integer_at n (s ++ rest) ≡ Err IntegerOverflow }
    ensures overflow_found { (n : ℕ) (bytes : List ℕ) → n ≤ 8
        → integer_at n bytes ≡ Err IntegerOverflow
        → (s : List ℕ) × (rest : List ℕ) × IsOverflow n s × (bytes ≡ s ++ rest) }
    ensures cut { (n : ℕ) (bytes : List ℕ) → n ≤ 8
        → (integer_at n bytes ≡ Err UnexpectedFin) ↔ IsCutInteger n bytes }
    ensures no_other { (n : ℕ) (bytes : List ℕ) (e : DecodingError) → n ≤ 8
        → integer_at n bytes ≡ Err e
        → (e ≡ UnexpectedFin) ⊎ (e ≡ IntegerOverflow) }
    ensures written { (n flags v : ℕ) → v < 2 ^ 64 → IsInt n v (shortest_int n flags v) }
    ensures shortest { (n flags v : ℕ) (s : List ℕ) → IsInt n v s
        → length (shortest_int n flags v) ≤ length s }
{}

/// Reading a string agrees with the relation of RFC 9204, section 4.1.2. A fault of the string's
/// length is the fault of the string; a length of more bytes than follow is truncated input, and
/// complete bytes that are not a text are invalid. What is written is an encoding of its text.
pub fn string_literals()
    ensures huffman { (t s : List ℕ) → (huffman_text s ≡ Some t) ↔ IsHuffman t s }
    ensures read { (n : ℕ) (t s rest : List ℕ) → IsString n t s
        → string_at n (s ++ rest) ≡ Ok (t, rest) }
    ensures found { (n : ℕ) (t bytes rest : List ℕ) → n ≤ 8 → string_at n bytes ≡ Ok (t, rest)
        → (s : List ℕ) × IsString n t s × (bytes ≡ s ++ rest) }
    ensures length_fault { (n : ℕ) (bytes : List ℕ) (e : DecodingError) → integer_at n bytes ≡ Err e
        → string_at n bytes ≡ Err e }
    ensures cut { (n count : ℕ) (size rest : List ℕ) → IsInt n count size → length rest < count
        → string_at n (size ++ rest) ≡ Err UnexpectedFin }
    ensures invalid { (n : ℕ) (size body rest : List ℕ) → IsInt n (length body) size
        → ((t : List ℕ) → ¬ (IsString n t (size ++ body)))
        → string_at n ((size ++ body) ++ rest) ≡ Err InvalidString }
    ensures written { (n flags : ℕ) (t : List ℕ) → IsText t
        → IsString n t (encoded_string n flags t) }
{}

/// An encoded line reads as its field, whatever follows.
pub fn field_lines()
    ensures { (field : Field) (rest : List ℕ) → IsText field.0 → IsText field.1
        → line_at (encoded_line field ++ rest) ≡ Ok (field, rest) }
{}

/// Reading a section goes by its lines, one after the other, after the two integers of its prefix;
/// its fault is that of the prefix, or of the first line that has one.
pub fn field_sections()
    ensures read { (bytes lines : List ℕ) (fields : List Field) → after_prefix bytes ≡ Ok lines
        → AreLines lines fields [] → section_at bytes ≡ Ok fields }
    ensures found { (bytes : List ℕ) (fields : List Field) → section_at bytes ≡ Ok fields
        → (lines : List ℕ) × (after_prefix bytes ≡ Ok lines) × AreLines lines fields [] }
    ensures cut { (bytes : List ℕ) (e : DecodingError) → after_prefix bytes ≡ Err e
        → section_at bytes ≡ Err e }
    ensures fault { (bytes : List ℕ) (e : DecodingError) (reached : ReachesLine bytes)
        → line_at reached.rest ≡ Err e → section_at bytes ≡ Err e }
    ensures fault_found { (bytes : List ℕ) (e : DecodingError) → section_at bytes ≡ Err e
        → (after_prefix bytes ≡ Err e)
        ⊎ ((reached : ReachesLine bytes) × (line_at reached.rest ≡ Err e)) }
    ensures written { (fields : List Field) → AreTexts fields
        → section_at (section_of fields) ≡ Ok fields }
{}

/// The map of lines has each name once, in byte order, with the value of the last line of that
/// name, and no other name. So decoding the encoding of any fields gives the last value of each
/// name.
pub fn field_maps()
    ensures ordered { (lines : List Field) → IsMap (field_map lines) }
    ensures last { (lines : List Field) (name : List ℕ)
        → field_value name (field_map lines) ≡ last_value name lines }
    ensures kept { (fields : List Field) → IsMap fields → field_map fields ≡ fields }
    ensures sent { (fields : List Field) → AreTexts fields
        → map_at (section_of fields) ≡ Ok (field_map fields) }
{}

/// Encodes fields and decodes them again: the last value of each name is returned, and no other
/// name.
pub fn encode_and_decode(
    alloc: Global,
    pairs: &[(&str, &str)],
) -> Result<BTreeMap<String, String>, DecodingError>
    ensures { MatchResult result (λ m. fields_of m ≡ field_map (fields_of_texts pairs.now))
        (λ e. e ≡ Memory) }
{
    let section = Encoder::encode(alloc, pairs.iter().copied())?;
    Decoder::decode(alloc, section.as_slice())
}
