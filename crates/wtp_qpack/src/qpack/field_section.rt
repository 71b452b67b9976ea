//! The parts of a field section (RFC 9204, section 4.5).

ghost use Rattle.std.specs.Prelude.{◌≡◌, ◌≢◌, ℕ, ◌<◌, List, [], ◌∷◌, length, IfOk, IfErr, Ok, Err};
ghost use Rattle.wtp_qpack.specs.declared.qpack.DecodingError.TheVariants.{Memory};
ghost use Rattle.wtp_qpack.specs.Field.{Field, fields_of, field_map};
ghost use Rattle.wtp_qpack.specs.Qpack.{Gives};
ghost use Rattle.wtp_qpack.specs.FieldLine.{line_at, NeedsMemory};
ghost use Rattle.wtp_qpack.specs.FieldSection.{after_prefix, AreLines};

use super::{DecodingError, field_line, integer};
use std::alloc::{AllocError, Global};
use std::collections::BTreeMap;

/// The initial capacity for a section; it grows for a longer one.
const INITIAL_CAPACITY: usize = 512;

/// Returns the empty prefix, with room for lines after it.
pub fn empty_prefix(alloc: Global) -> Result<Vec<u8>, AllocError>
    ensures { IfOk result (λ v. v.items ≡ 0 ∷ 0 ∷ []) }
{
    let mut out = Vec::with_capacity(alloc, INITIAL_CAPACITY)?;
    out.extend_from_slice(&[0, 0])?;
    Ok(out)
}

/// Returns the bytes after the two integers that precede the lines. The values of the integers are
/// ignored.
#[tactic(auto, unfolding(crate::specs::FieldSection::after_prefix))]
pub fn skip_prefix(bytes: &[u8]) -> Result<&[u8], DecodingError>
    ensures { Gives (λ x. x.now) result (after_prefix bytes.now) }
{
    let (_, rest) = integer::read::<8>(bytes)?;
    let (_, rest) = integer::read::<7>(rest)?;
    Ok(rest)
}

/// Returns the map of the lines.
pub fn read_lines(alloc: Global, lines: &[u8]) -> Result<BTreeMap<String, String>, DecodingError>
    ensures found { IfOk result (λ m.
        (ls : List Field) × AreLines lines.now ls [] × (fields_of m ≡ field_map ls)) }
    ensures fault { IfErr result (λ e.
        (ls : List Field) × (rest : List ℕ) × AreLines lines.now ls rest
        × (0 < length rest) × (e ≢ Memory → line_at rest ≡ Err e)) }
    ensures memory { result ≡ Err Memory → (ls : List Field) × (rest : List ℕ)
        × AreLines lines.now ls rest × (0 < length rest) × NeedsMemory rest }
{
    let mut fields = BTreeMap::new(alloc);
    let mut room = Vec::new(alloc);
    let mut rest = lines;
    while !rest.is_empty() {
        let line = field_line::read_strings(alloc, &mut room, rest)?;
        fields.insert(line.name, line.value)?;
        rest = line.rest;
    }
    Ok(fields)
}
