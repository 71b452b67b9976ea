//! Field sections (RFC 9204, section 4.5).
ghost use Rattle.std.specs.Prelude.{◌≡◌, ◌≢◌, ◌⊎◌, ◌≤◌, ◌<◌, ◌+◌, ℕ, List, [], length, take, drop};
ghost use Rattle.std.specs.Prelude.{IsTrue, IsSome, IfSome, IfOk, IfErr, Err};
ghost use Rattle.wtp_fields.specs.declared.qpack.DecodingError.TheVariants.{Memory};
ghost use Rattle.wtp_fields.specs.Field.{Field};
ghost use Rattle.wtp_fields.specs.FieldLines.{octet_line_at, AreOctetLines, is_coded_line};
ghost use Rattle.wt_c.specs.Fields.{AreLinesOf, HasSectionFault, HasCodedLine, HoldLines, LackRoom};
ghost use Rattle.wt_c.specs.Fields.{LinePut, capped, texts_size};

use crate::status::{BUFFER_TOO_SMALL, ERROR, MEMORY, OK};
use std::alloc::Global;
use wtp_core::error::ErrorCode;
use wtp_fields::qpack::{DecodingError, FieldBuffer, FieldLines};

/// A field line whose name and value are in an array of bytes.
#[repr(C)]
#[derive(Clone, Copy)]
pub struct WtField {
    /// The offset of the name.
    pub name_offset: usize,
    /// The length of the name in bytes.
    pub name_len: usize,
    /// The offset of the value.
    pub value_offset: usize,
    /// The length of the value in bytes.
    pub value_len: usize,
}

/// Returns the sum, or `usize::MAX` if it overflows.
pub(crate) fn add_capped(a: usize, b: usize) -> usize
    ensures { result ≡ capped (a + b) }
{
    if b > usize::MAX - a {
        return usize::MAX;
    }
    a + b
}

/// Copies a text after the first `at` bytes of `out`. Returns the offset after it, or `None` if
/// it does not fit.
fn put_text(text: &[u8], out: &mut [u8], at: usize) -> Option<usize>
    ensures end { IfSome result (λ end. (end ≡ at + length text.now) × (end ≤ length out.new)) }
    ensures front { take at out.new ≡ take at out.old }
    ensures text { IfSome result (λ end. take (length text.now) (drop at out.new) ≡ text.now) }
    ensures after { drop (at + length text.now) out.new ≡ drop (at + length text.now) out.old }
    ensures fits { at + length text.now ≤ length out.old → IsSome result }
    ensures room { length out.new ≡ length out.old }
{
    let (_, room) = out.split_at_mut_checked(at)?;
    let (place, _) = room.split_at_mut_checked(text.len())?;
    place.copy_from_slice(text);
    Some(at + text.len())
}

/// Stores a line after the first `n` fields, and its texts after the first `at` bytes, if there
/// is room.
pub(crate) fn put_line(
    name: &[u8],
    value: &[u8],
    n: usize,
    at: usize,
    fields: &mut [WtField],
    texts: &mut [u8],
)
    ensures put { n < length fields.old
        → (at + length name.now) + length value.now ≤ length texts.old
        → LinePut fields.old texts.old n at name.now value.now fields.new texts.new }
    ensures fields_room { length fields.new ≡ length fields.old }
    ensures texts_room { length texts.new ≡ length texts.old }
{
    if n >= fields.len() {
        return;
    }
    let Some(name_end) = put_text(name, texts, at) else {
        return;
    };
    if put_text(value, texts, name_end).is_none() {
        return;
    }
    fields[n] = WtField {
        name_offset: at,
        name_len: name.len(),
        value_offset: name_end,
        value_len: value.len(),
    };
}

/// Stores as many lines in the arrays as fit. Returns the number of lines and the length of their
/// texts, including those that did not fit.
fn read_lines(
    alloc: Global,
    lines: &mut FieldLines<'_>,
    fields: &mut [WtField],
    texts: &mut [u8],
) -> Result<(usize, usize), DecodingError>
    ensures read { IfOk result (λ sizes. (done : List Field) × AreOctetLines lines.old done []
        × (sizes.0 ≡ capped (length done)) × (sizes.1 ≡ capped (texts_size done))
        × (sizes.0 ≤ length fields.new → sizes.1 ≤ length texts.new
        → HoldLines fields.old texts.old fields.new texts.new sizes.0 sizes.1 done)) }
    ensures fault { IfErr result (λ e. (done : List Field) × (rest : List ℕ)
        × AreOctetLines lines.old done rest × (0 < length rest)
        × (e ≢ Memory → octet_line_at rest ≡ Err e)
        × (e ≡ Memory → IsTrue (is_coded_line rest))) }
{
    let mut room = FieldBuffer::new(alloc);
    let mut count: usize = 0;
    let mut used: usize = 0;
    'lines: loop {
        match lines.next_line(&mut room) {
            None => return Ok((count, used)),
            Some(Err(fault)) => return Err(fault),
            Some(Ok(line)) => {
                put_line(line.name, line.value, count, used, fields, texts);
                count = add_capped(count, 1);
                let name_end = add_capped(used, line.name.len());
                used = add_capped(name_end, line.value.len());
            }
        }
    }
}

/// Decodes a field section into its lines, in order and with repeated names. Names and values are
/// bytes.
///
/// Returns `OK` if all lines fit: they are the first `count` of `fields`, and their texts are the
/// first `used` bytes of `texts`. The rest of both arrays is unchanged.
///
/// Returns `BUFFER_TOO_SMALL` if an array is too short. `count` and `used` are then the sizes that
/// the lines need, or `usize::MAX` for a larger size. Returns `ERROR` with the code
/// `QPACK_DECOMPRESSION_FAILED` (0x200) if the section has an error, and `MEMORY` if allocation
/// failed, which happens only at a line with a Huffman string. `ERROR` and `MEMORY` leave `count`
/// and `used` unchanged. In all three cases the contents of both arrays are unspecified. Only
/// `ERROR` changes `code`.
#[unsafe(no_mangle)]
pub extern "C" fn wt_fields_read(
    alloc: Global,
    section: &[u8],
    fields: &mut [WtField],
    texts: &mut [u8],
    count: &mut usize,
    used: &mut usize,
    code: &mut u64,
) -> i32
    ensures answers { (result ≡ OK) ⊎ ((result ≡ BUFFER_TOO_SMALL) ⊎ ((result ≡ ERROR) ⊎ (result ≡ MEMORY))) }
    ensures lines { result ≡ OK → (lines : List Field) × AreLinesOf section.now lines
        × HoldLines fields.old texts.old fields.new texts.new count.new used.new lines }
    ensures room { result ≡ BUFFER_TOO_SMALL → (lines : List Field) × AreLinesOf section.now lines
        × LackRoom fields.old texts.old count.new used.new lines }
    ensures fault { result ≡ ERROR → HasSectionFault section.now × (code.new ≡ 0x200)
        × (count.new ≡ count.old) × (used.new ≡ used.old) }
    ensures memory { result ≡ MEMORY → HasCodedLine section.now
        × (count.new ≡ count.old) × (used.new ≡ used.old) }
    ensures code { result ≢ ERROR → code.new ≡ code.old }
{
    let Ok(mut lines) = FieldLines::new(section) else {
        *code = ErrorCode::Decompression.to_code().into_inner();
        return ERROR;
    };
    match read_lines(alloc, &mut lines, fields, texts) {
        Ok((lines_found, bytes_found)) => {
            *count = lines_found;
            *used = bytes_found;
            if lines_found <= fields.len() && bytes_found <= texts.len() {
                OK
            } else {
                BUFFER_TOO_SMALL
            }
        }
        Err(DecodingError::Memory) => MEMORY,
        Err(_) => {
            *code = ErrorCode::Decompression.to_code().into_inner();
            ERROR
        }
    }
}
