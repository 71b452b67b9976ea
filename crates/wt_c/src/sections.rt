//! Encodes field sections (RFC 9204, section 4.5).
ghost use Rattle.std.specs.Prelude.{◌≡◌, ◌⊎◌, length, IfOk};
ghost use Rattle.wtp_qpack.specs.Field.{IsOctets, AreOctets};
ghost use Rattle.wtp_qpack.specs.FieldSection.{shortest_section};
ghost use Rattle.wt_c.specs.Fields.{AreWithin};
ghost use Rattle.wt_c.specs.Output.{WritesPrefix, TooShort};
ghost use Rattle.wt_c.specs.Texts.{AreTextFields, lines_in};

use crate::fields::WtField;
use crate::output::write_bytes;
use crate::status::{BUFFER_TOO_SMALL, INVALID, MEMORY, OK};
use crate::texts::{are_texts, parts_of};
use std::alloc::{AllocError, Global};
use wtp_qpack::section;

/// Returns its argument; the contract states that each byte is below 256.
fn octets(bytes: &[u8]) -> &[u8]
    ensures same { result.now ≡ bytes.now }
    ensures octets { IsOctets bytes.now }
{
    bytes
}

/// Encodes fields that are within the texts as a field section, as [`FieldList::encode`] does.
///
/// [`FieldList::encode`]: wtp_fields::fields::FieldList::encode
pub(crate) fn encode_fields(
    alloc: Global,
    fields: &[WtField],
    texts: &[u8],
) -> Result<Vec<u8>, AllocError>
    requires { AreWithin (length texts.now) fields.now }
    ensures { IfOk result (λ v. (v.items ≡ shortest_section (lines_in texts.now fields.now))
        × AreOctets (lines_in texts.now fields.now)) }
{
    let mut out = section::empty_prefix(alloc)?;
    for field in fields {
        let Some((name, value)) = parts_of(field, texts) else {
            unreachable!();
        };
        section::write_shortest_line(&mut out, octets(name), octets(value))?;
    }
    Ok(out)
}

/// Writes a field section to the start of `out`. It contains the fields in order, and uses only the
/// static table: no section that does so has these fields in fewer bytes. Literals of
/// [sensitive fields](wtp_qpack::sensitive::is_sensitive) are never indexed.
///
/// Returns `OK` with the size of the section in `used`. Returns `BUFFER_TOO_SMALL` if `out` is too
/// short; `used` is then the size of the section, and `out` is unchanged. Returns `INVALID` if a
/// field is not within `texts` or is not UTF-8, and otherwise `MEMORY` if allocation failed;
/// nothing is then changed.
#[unsafe(no_mangle)]
#[tactic(auto, using(crate::proofs::TextLemmas::within_of_texts))]
pub extern "C" fn wt_fields_write(
    alloc: Global,
    fields: &[WtField],
    texts: &[u8],
    out: &mut [u8],
    used: &mut usize,
) -> i32
    ensures answers { (result ≡ OK) ⊎ ((result ≡ BUFFER_TOO_SMALL) ⊎ ((result ≡ INVALID) ⊎ (result ≡ MEMORY))) }
    ensures bytes { result ≡ OK → AreTextFields texts.now fields.now
        × WritesPrefix (shortest_section (lines_in texts.now fields.now)) out.old out.new used.new }
    ensures room { result ≡ BUFFER_TOO_SMALL → AreTextFields texts.now fields.now
        × TooShort (shortest_section (lines_in texts.now fields.now)) out.old out.new used.new }
    ensures invalid { result ≡ INVALID → (¬ (AreTextFields texts.now fields.now))
        × (out.new ≡ out.old) × (used.new ≡ used.old) }
    ensures memory { result ≡ MEMORY → AreTextFields texts.now fields.now
        × (out.new ≡ out.old) × (used.new ≡ used.old) }
{
    if !are_texts(fields, texts) {
        return INVALID;
    }
    match encode_fields(alloc, fields, texts) {
        Ok(section) => write_bytes(section.as_slice(), out, used),
        Err(_) => MEMORY,
    }
}
