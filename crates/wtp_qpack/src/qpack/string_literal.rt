//! String literals (RFC 7541, section 5.2; RFC 9204, section 4.1.2).

ghost use Rattle.std.specs.Prelude.{◌≡◌, ◌+◌, ◌-◌, ◌*◌, ◌^◌, ◌<◌, ◌≤◌, ◌++◌, length, take, drop};
ghost use Rattle.std.specs.Prelude.{IsSome, IfOk, IfErr, OnOk, OnErr, SomeIff, IsTrue, true, Err};
ghost use Rattle.std.specs.Vec.{vec_len, vec_capacity};
ghost use Rattle.wtp_huffman.specs.Huffman.{coded_len};
ghost use Rattle.wtp_huffman.specs.HuffmanEncoding.{BeginsWith};
ghost use Rattle.wtp_qpack.specs.declared.qpack.DecodingError.TheVariants.{InvalidString, Memory};
ghost use Rattle.wtp_qpack.specs.Integer.{shortest_int, integer_at};
ghost use Rattle.wtp_qpack.specs.Qpack.{Gives, GivesUnlessMemory};
ghost use Rattle.wtp_qpack.specs.StringLiteral.{flag_above, utf8_text, checked, text_of};
ghost use Rattle.wtp_qpack.specs.StringLiteral.{string_in, is_coded};
ghost use Rattle.wtp_qpack.specs.StringLiteral.{Grows, seen_string, encoded_string};

use super::{DecodingError, integer};
use std::alloc::AllocError;
use wtp_huffman::huffman::{self, HuffmanError};

/// The texts that a string may have.
#[derive(Clone, Copy)]
pub enum Texts {
    /// Any bytes.
    Octets,
    /// UTF-8.
    Utf8,
}

/// Checks that the bytes are UTF-8.
#[cold]
#[inline(never)]
fn validate(bytes: &[u8]) -> Result<(), DecodingError>
    ensures read { Gives (λ _. bytes.now) result (utf8_text bytes.now) }
    ensures fault { IfErr result (λ e. e ≡ InvalidString) }
{
    match str::from_utf8(bytes) {
        Ok(_) => Ok(()),
        Err(_) => Err(DecodingError::InvalidString),
    }
}

/// Checks that the bytes of a string are such a text. Nearly every text is ASCII.
#[inline(always)]
fn check(texts: Texts, bytes: &[u8]) -> Result<(), DecodingError>
    ensures read { Gives (λ _. bytes.now) result (checked texts bytes.now) }
    ensures fault { IfErr result (λ e. e ≡ InvalidString) }
{
    match texts {
        Texts::Octets => Ok(()),
        Texts::Utf8 => {
            if bytes.is_ascii() {
                Ok(())
            } else {
                validate(bytes)
            }
        }
    }
}

/// Allocates `capacity` bytes for a room that has fewer.
fn reserve(room: &mut Vec<u8>, capacity: usize) -> Result<(), AllocError>
    requires few { vec_len room.old ≤ capacity }
    ensures items { room.new.items ≡ room.old.items }
    ensures len { vec_len room.new ≡ vec_len room.old }
    ensures once { Grows true capacity (vec_capacity room.old) (vec_capacity room.new) }
    ensures ok { OnOk result (capacity ≤ vec_capacity room.new) }
    ensures full { OnErr result (vec_capacity room.old < capacity) }
{
    if capacity <= room.capacity() {
        return Ok(());
    }
    room.reserve(capacity - room.len())
}

/// Appends the decoded text to a room, which has `capacity` bytes afterwards.
fn decode(
    room: &mut Vec<u8>,
    capacity: usize,
    texts: Texts,
    body: &[u8],
) -> Result<(), DecodingError>
    requires fits { vec_len room.old + 2 * length body.now ≤ capacity }
    ensures read { GivesUnlessMemory (λ _. drop (length room.old.items) room.new.items) result
        (text_of texts true body.now) }
    ensures front { take (length room.old.items) room.new.items ≡ room.old.items }
    ensures size { OnOk result (vec_len room.new ≤ vec_len room.old + 2 * length body.now) }
    ensures once { Grows true capacity (vec_capacity room.old) (vec_capacity room.new) }
    ensures memory { result ≡ Err Memory → vec_capacity room.old < capacity }
{
    let start = room.len();
    reserve(room, capacity)?;
    match huffman::append_decoded(room, body) {
        Ok(true) => Ok(()),
        Ok(false) => check(texts, &room[start..]),
        Err(HuffmanError::Invalid) => Err(DecodingError::InvalidString),
        Err(HuffmanError::Memory) => Err(DecodingError::Memory),
    }
}

/// Returns the flag H, the bit above the prefix.
pub fn has_flag<const N: u32>(bytes: &[u8]) -> bool
    requires some { 1 ≤ N }
    requires few { N ≤ 7 }
    requires byte { 0 < length bytes.now }
    ensures { result ≡ flag_above N bytes.now }
{
    u64::from(bytes[0]) / (1u64 << N) % 2 == 1
}

/// Reads the string at the start, with its length in the low `N` bits of the first byte. Returns
/// its text, or `None` if it was appended to `room`, and the bytes after it. The room allocates
/// `capacity` bytes at once. After an error it begins with what it contained before, and what
/// follows is unspecified.
#[inline(always)]
#[tactic(auto, unfolding(crate::specs::StringLiteral::string_in))]
pub fn read<'a, const N: u32>(
    room: &mut Vec<u8>,
    capacity: usize,
    texts: Texts,
    bytes: &'a [u8],
) -> Result<(Option<&'a [u8]>, &'a [u8]), DecodingError>
    requires some { 1 ≤ N }
    requires few { N ≤ 7 }
    requires fits { vec_len room.old + 2 * length bytes.now ≤ capacity }
    ensures read { GivesUnlessMemory (seen_string (drop (length room.old.items) room.new.items))
        result (string_in texts N bytes.now) }
    ensures front { take (length room.old.items) room.new.items ≡ room.old.items }
    ensures plain { IfOk result (λ x. IsSome x.0 → room.new.items ≡ room.old.items) }
    ensures size { IfOk result (λ x. vec_len room.new + 2 * length x.1.now
        ≤ vec_len room.old + 2 * length bytes.now) }
    ensures once { Grows (is_coded N bytes.now) capacity
        (vec_capacity room.old) (vec_capacity room.new) }
    ensures memory { result ≡ Err Memory
        → IsTrue (is_coded N bytes.now) × (vec_capacity room.old < capacity) }
{
    let (size, rest) = integer::read::<N>(bytes)?;
    if size > rest.len() as u64 {
        return Err(DecodingError::UnexpectedFin);
    }
    let (body, behind) = rest.split_at(size as usize);
    if !has_flag::<N>(bytes) {
        check(texts, body)?;
        return Ok((Some(body), behind));
    }
    decode(room, capacity, texts, body)?;
    Ok((None, behind))
}

/// Returns the length of the text in the Huffman code, if that is strictly shorter.
fn shorter_len(text: &[u8]) -> Option<usize>
    ensures { SomeIff result (coded_len text.now < length text.now) (coded_len text.now) }
{
    huffman::encoded_len(text).filter(|size| *size < text.len())
}

/// Appends the length of a text and then the text, under the flags: in the Huffman code if that is
/// strictly shorter.
///
/// Returns [`AllocError`] if allocation fails. Then `out` begins with what it contained before, and
/// what follows is unspecified.
pub fn write<const N: u32>(out: &mut Vec<u8>, flags: u8, text: &[u8]) -> Result<(), AllocError>
    requires some { 1 ≤ N }
    requires few { N ≤ 7 }
    requires small { flags < 64 }
    requires above { flags * 2 + 1 < 2 ^ (8 - N) }
    ensures ok { OnOk result (out.new.items ≡ out.old.items ++ encoded_string N flags text.now) }
    ensures front { BeginsWith out.old.items out.new.items }
{
    if text.len() < 1 << N {
        write_short::<N>(out, flags, text)
    } else {
        write_long::<N>(out, flags, text)
    }
}

/// The same for a text so short that the length of its code fits into the first byte, if the code
/// is shorter. So the code is written after that byte first, and counted then.
fn write_short<const N: u32>(out: &mut Vec<u8>, flags: u8, text: &[u8]) -> Result<(), AllocError>
    requires some { 1 ≤ N }
    requires few { N ≤ 7 }
    requires small { flags < 64 }
    requires above { flags * 2 + 1 < 2 ^ (8 - N) }
    requires short { length text.now < 2 ^ N }
    ensures ok { OnOk result (out.new.items ≡ out.old.items ++ encoded_string N flags text.now) }
    ensures front { BeginsWith out.old.items out.new.items }
{
    let start = out.len();
    out.push(0)?;
    huffman::append(out, text)?;
    let size = out.len() - start - 1;
    if size < text.len() {
        out[start] = integer::only_byte::<N>(flags * 2 + 1, size as u64);
        return Ok(());
    }
    out.truncate(start);
    write_plain::<N>(out, flags, text)
}

/// The same for any text, whose code is counted before it is written.
fn write_long<const N: u32>(out: &mut Vec<u8>, flags: u8, text: &[u8]) -> Result<(), AllocError>
    requires some { 1 ≤ N }
    requires few { N ≤ 7 }
    requires small { flags < 64 }
    requires above { flags * 2 + 1 < 2 ^ (8 - N) }
    ensures ok { OnOk result (out.new.items ≡ out.old.items ++ encoded_string N flags text.now) }
    ensures front { BeginsWith out.old.items out.new.items }
{
    let Some(size) = shorter_len(text) else {
        return write_plain::<N>(out, flags, text);
    };
    integer::write::<N>(out, flags * 2 + 1, size as u64)?;
    huffman::append(out, text)?;
    Ok(())
}

/// Appends the length of a text and then the text as it is.
fn write_plain<const N: u32>(out: &mut Vec<u8>, flags: u8, text: &[u8]) -> Result<(), AllocError>
    requires some { 1 ≤ N }
    requires few { N ≤ 7 }
    requires small { flags < 64 }
    requires above { flags * 2 + 1 < 2 ^ (8 - N) }
    ensures ok { OnOk result (out.new.items
        ≡ out.old.items ++ (shortest_int N (flags * 2) (length text.now) ++ text.now)) }
    ensures front { BeginsWith out.old.items out.new.items }
{
    integer::write::<N>(out, flags * 2, text.len() as u64)?;
    out.extend_from_slice(text)
}
