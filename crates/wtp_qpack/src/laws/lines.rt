//! Laws of field lines as bytes, and of the lines and maps of texts that they make.
ghost use Rattle.std.specs.Prelude.{◌≡◌, ◌⊎◌, ℕ, ◌+◌, ◌<◌, ◌≤◌, List, [], ◌++◌, length, Some, None};
ghost use Rattle.std.specs.Prelude.{Ok, Err};
ghost use Rattle.wtp_qpack.specs.declared.qpack.DecodingError.{DecodingError};
ghost use Rattle.wtp_qpack.specs.declared.qpack.DecodingError.TheVariants.{InvalidString};
ghost use Rattle.wtp_qpack.specs.Field.{Field, IsOctets, AreOctets, field_map};
ghost use Rattle.wtp_qpack.specs.Integer.{shortest_int};
ghost use Rattle.wtp_qpack.specs.Sensitive.{is_sensitive};
ghost use Rattle.wtp_qpack.specs.StaticTable.{first_entry, FindsStatic};
ghost use Rattle.wtp_qpack.specs.FieldLine.{line_at, encoded_line, literal_line, shortest_line};
ghost use Rattle.wtp_qpack.specs.FieldSection.{after_prefix, map_at, section_of, shortest_section};
ghost use Rattle.wtp_qpack.specs.FieldLines.{octet_line_at, as_texts, AreOctetLines, AreUtf8Fields};

/// A line of bytes is the line of texts, if its name and its value are UTF-8, and otherwise no
/// valid one. A line that is cut or invalid as bytes is so as texts: with the same fault, or with
/// `InvalidString`, as where its name, which is read first, is not UTF-8.
pub fn lines_of_texts()
    ensures line { (bytes rest : List ℕ) (line : Field) → octet_line_at bytes ≡ Ok (line, rest)
        → line_at bytes ≡ as_texts (line, rest) }
    ensures fault { (bytes : List ℕ) (e : DecodingError) → octet_line_at bytes ≡ Err e
        → (line_at bytes ≡ Err e) ⊎ (line_at bytes ≡ Err InvalidString) }
{}

/// The map of a section is the map of its lines, all of which are UTF-8. A section with a line that
/// has a fault, or is not UTF-8, after lines that are UTF-8, has no map: its fault is that of the
/// line as bytes, or `InvalidString`.
pub fn maps_of_lines()
    ensures found { (section : List ℕ) (m : List Field) → map_at section ≡ Ok m
        → (lines : List ℕ) × (fields : List Field) × (after_prefix section ≡ Ok lines)
        × AreOctetLines lines fields [] × AreUtf8Fields fields × (m ≡ field_map fields) }
    ensures map { (section lines : List ℕ) (fields : List Field) → after_prefix section ≡ Ok lines
        → AreOctetLines lines fields [] → AreUtf8Fields fields
        → map_at section ≡ Ok (field_map fields) }
    ensures fault { (section lines rest : List ℕ) (fields : List Field) (e : DecodingError)
        → after_prefix section ≡ Ok lines → AreOctetLines lines fields rest → AreUtf8Fields fields
        → 0 < length rest → octet_line_at rest ≡ Err e
        → (map_at section ≡ Err e) ⊎ (map_at section ≡ Err InvalidString) }
    ensures not_text { (section lines rest behind : List ℕ) (fields : List Field) (line : Field)
        → after_prefix section ≡ Ok lines → AreOctetLines lines fields rest → AreUtf8Fields fields
        → octet_line_at rest ≡ Ok (line, behind) → as_texts (line, behind) ≡ Err InvalidString
        → map_at section ≡ Err InvalidString }
{}

/// An encoded line reads as its field, whatever follows; and an encoded section has the lines of
/// its fields, in their order. Names and values need not be UTF-8.
pub fn lines_again()
    ensures line { (field : Field) (rest : List ℕ) → IsOctets field.0 → IsOctets field.1
        → octet_line_at (encoded_line field ++ rest) ≡ Ok (field, rest) }
    ensures section { (fields : List Field) → AreOctets fields → (lines : List ℕ)
        × (after_prefix (section_of fields) ≡ Ok lines) × AreOctetLines lines fields [] }
{}

/// The line of a field in a list is the index of the static entry that is the field, where there is
/// one; otherwise a literal, with the bit N exactly if the field is sensitive. It reads as its field,
/// whatever follows, and the section of a list has the lines of its fields, in their order.
pub fn shortest_lines()
    ensures indexed { (field : Field) (index : ℕ) → FindsStatic field (Some index)
        → shortest_line field ≡ shortest_int 6 3 index }
    ensures literal { (field : Field) → FindsStatic field None
        → shortest_line field ≡ literal_line (is_sensitive field) (first_entry field.0) field }
    ensures line { (field : Field) (rest : List ℕ) → IsOctets field.0 → IsOctets field.1
        → octet_line_at (shortest_line field ++ rest) ≡ Ok (field, rest) }
    ensures section { (fields : List Field) → AreOctets fields → (lines : List ℕ)
        × (after_prefix (shortest_section fields) ≡ Ok lines) × AreOctetLines lines fields [] }
{}

/// No line without the dynamic table is a field in fewer bytes than its line in a list, and no section
/// without the dynamic table has the fields of a list in fewer bytes than the list's.
pub fn no_shorter_lines()
    ensures line { (bytes rest : List ℕ) (field : Field) → octet_line_at bytes ≡ Ok (field, rest)
        → length (shortest_line field) + length rest ≤ length bytes }
    ensures section { (section lines : List ℕ) (fields : List Field) → after_prefix section ≡ Ok lines
        → AreOctetLines lines fields [] → length (shortest_section fields) ≤ length section }
{}
