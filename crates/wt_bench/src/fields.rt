//! Field sections and settings, for C.

ghost use Rattle.std.specs.Prelude.{◌≡◌, ◌≢◌, ℕ, ◌+◌, ◌<◌, ◌^◌, pos, negsuc, List, [], length};
ghost use Rattle.std.specs.Prelude.{Ok, IfOk, IfSome};
ghost use Rattle.wtp_fields.specs.Field.{Field};
ghost use Rattle.wt_bench.specs.Pair.{pair_fields};
ghost use Rattle.wt_bench.specs.Fields.{field_size, list_size};
ghost use Rattle.wtp_fields.specs.FieldSection.{after_prefix, map_at, shortest_section};
ghost use Rattle.wtp_fields.specs.FieldLines.{AreOctetLines, seen_line};
ghost use Rattle.wtp_wire.specs.Settings.{settings_in};

use super::pair::Pair;
use super::put;
use std::alloc::{AllocError, Global};
use std::borrow::CowSlice;
use wtp_fields::qpack::{Decoder, FieldBuffer, FieldLine, FieldLines};
use wtp_qpack::section;
use wtp_wire::frame::Frame;
use wtp_wire::settings::Settings;

/// Decodes a field section and returns the number of fields in its map.
#[unsafe(no_mangle)]
pub extern "C" fn wt_bench_qpack_decode(alloc: Global, section: &[u8]) -> i64
    ensures { result ≢ negsuc 0
        → (m : List Field) × (map_at section.now ≡ Ok m) × (result ≡ pos (length m)) }
{
    match Decoder::decode(alloc, section) {
        Ok(fields) => fields.len().cast_signed() as i64,
        Err(_) => -1,
    }
}

/// Returns the size of a field list after one more field (RFC 9114, section 4.2.2).
pub(crate) fn add_line(size: usize, line: FieldLine<'_>) -> Option<usize>
    ensures { IfSome result (λ sum. sum ≡ size + field_size (seen_line line.entry)) }
{
    let size = size.checked_add(32)?;
    let size = size.checked_add(line.name.len())?;
    size.checked_add(line.value.len())
}

/// Reads the lines of a field section one by one and returns the size of the field list.
#[unsafe(no_mangle)]
pub extern "C" fn wt_bench_qpack_lines(alloc: Global, section: &[u8]) -> i64
    ensures { result ≢ negsuc 0 → (lines : List ℕ) × (fields : List Field)
        × (after_prefix section.now ≡ Ok lines) × AreOctetLines lines fields []
        × (result ≡ pos (list_size fields)) }
{
    let Ok(mut lines) = FieldLines::new(section) else {
        return -1;
    };
    let mut room = FieldBuffer::new(alloc);
    let mut size: usize = 0;
    'lines: loop {
        match lines.next_line(&mut room) {
            None => return i64::try_from(size).unwrap_or(-1),
            Some(Err(_)) => return -1,
            Some(Ok(line)) => match add_line(size, line) {
                Some(sum) => size = sum,
                None => return -1,
            },
        }
    }
}

/// Encodes pairs as a field section, as a field list is encoded.
fn encode_pairs(alloc: Global, pairs: &[Pair<'_>]) -> Result<Vec<u8>, AllocError>
    ensures { IfOk result (λ section. section.items ≡ shortest_section (pair_fields pairs.now)) }
{
    let mut section = section::empty_prefix(alloc)?;
    for pair in pairs {
        section::write_shortest_line(&mut section, pair.name, pair.value)?;
    }
    Ok(section)
}

/// Encodes pairs as a field section, as a field list is encoded, and writes it to `out`.
#[unsafe(no_mangle)]
pub extern "C" fn wt_bench_qpack_encode(alloc: Global, pairs: &[Pair<'_>], out: &mut [u8]) -> i64
    ensures { result ≢ negsuc 0 → result ≡ pos (length (shortest_section (pair_fields pairs.now))) }
{
    match encode_pairs(alloc, pairs) {
        Ok(section) => put(section.as_slice(), out),
        Err(_) => -1,
    }
}

/// Reads the payload of a SETTINGS frame. Returns 1 if it is valid.
#[unsafe(no_mangle)]
pub extern "C" fn wt_bench_settings(alloc: Global, payload: &[u8]) -> i64
    requires { length payload.now < 2 ^ 62 }
    ensures { result ≢ negsuc 0 → (m : List (ℕ × ℕ)) × (settings_in payload.now ≡ Ok m) }
{
    let frame = Frame::new_settings(CowSlice::Borrowed(payload));
    match Settings::with_frame(alloc, &frame) {
        Ok(_) => 1,
        Err(_) => -1,
    }
}
