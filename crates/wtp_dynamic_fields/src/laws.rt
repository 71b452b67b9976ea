//! Laws of the definitions: the contract of each function is the law.
ghost use Rattle.std.specs.Prelude.{◌≡◌, ℕ, List, [], Result, Ok};
ghost use Rattle.wtp_qpack.specs.Field.{Field};
ghost use Rattle.wtp_qpack.specs.FieldSection.{after_prefix};
ghost use Rattle.wtp_qpack.specs.FieldLines.{octet_line_at, AreOctetLines, is_coded_line as is_coded_octet_line};
ghost use Rattle.wtp_fields.specs.FieldList as static;
ghost use Rattle.wtp_dynamic.specs.Table.{Table};
ghost use Rattle.wtp_dynamic.specs.Section.{Prefix, prefix_at, table_line_at, AreTableLines, is_coded_line};
ghost use Rattle.wtp_dynamic_decoder.specs.Decoder.{Decoder};
ghost use Rattle.wtp_dynamic_fields.specs.declared.section.Decoded.{Decoded};
ghost use Rattle.wtp_dynamic_fields.specs.declared.section.TableSectionError.{TableSectionError};
ghost use Rattle.wtp_dynamic_fields.specs.Lists.{Reaches};
ghost use Rattle.wtp_dynamic_fields.specs.Reading.{SectionGives};
ghost use Rattle.wtp_dynamic_fields.specs.Static.{IsReadAlike, IsReadAlikeUnlessDynamic, NamesNoTable, IsPrefixOf, StaticGives};

/// There is one grammar: a line that does not refer to the dynamic table is read by each table as it
/// is read without one, with the same faults. In a section whose Required Insert Count is 0, so is
/// each other line, which has no entry to refer to.
pub fn lines_are_read_alike()
    ensures any { (table : Table) (prefix : Prefix) (bytes : List ℕ)
        → IsReadAlikeUnlessDynamic (octet_line_at bytes) (table_line_at table prefix bytes) }
    ensures none { (table : Table) (prefix : Prefix) (bytes : List ℕ) → prefix.required ≡ 0
        → IsReadAlike (octet_line_at bytes) (table_line_at table prefix bytes) }
    ensures coded { (table : Table) (prefix : Prefix) (bytes : List ℕ) → prefix.required ≡ 0
        → is_coded_line table prefix bytes ≡ is_coded_octet_line bytes }
    ensures again { (table : Table) (prefix : Prefix) (bytes : List ℕ) (fields : List Field) (rest : List ℕ)
        → AreOctetLines bytes fields rest → AreTableLines table prefix bytes fields rest }
    ensures back { (table : Table) (prefix : Prefix) (bytes : List ℕ) (fields : List Field) (rest : List ℕ)
        → prefix.required ≡ 0 → AreTableLines table prefix bytes fields rest
        → AreOctetLines bytes fields rest }
{}

/// A section whose prefix names no table is decoded with a decoder exactly as it is decoded by
/// [`FieldList::decode`](wtp_fields::fields::FieldList::decode), whatever the table and the streams
/// that wait: to the same list, with the same limit, and with the error that corresponds, at the
/// same line. It never waits.
pub fn sections_without_a_table()
    ensures prefix { (table : Table) (section : List ℕ) → NamesNoTable section
        → IsPrefixOf (after_prefix section) (prefix_at table section) }
    ensures section { (limit stream : ℕ) (section : List ℕ) (old new : Decoder)
        (result : Result Decoded TableSectionError) → NamesNoTable section
        → SectionGives limit stream section old new result → StaticGives limit section result }
    ensures again { (limit : ℕ) (table : Table) (section : List ℕ) (fields : List Field)
        → NamesNoTable section → static.Reaches limit section fields []
        → (prefix : Prefix) × (prefix_at table section ≡ Ok prefix)
        × Reaches limit table prefix fields [] }
{}
