//! Decoding of Huffman-encoded text.
ghost use Rattle.std.specs.Prelude.{◌≡◌, ℕ, Bool, ◌+◌, ◌-◌, ◌*◌, ◌<◌, ◌≤◌, ◌^◌, List, [], ◌∷◌};
ghost use Rattle.std.specs.Prelude.{◌++◌, length, take, IfOk, OnOk, OnErr, MatchResult, IsOk};
ghost use Rattle.std.specs.Prelude.{IfErr, IsOkAnd, IsTrue, ◌↔◌, Err};
ghost use Rattle.std.specs.Vec.{vec_len, vec_capacity};
ghost use Rattle.wtp_huffman.specs.Huffman.{bits_of, low_bits, IsHuffman};
ghost use Rattle.wtp_huffman.specs.HuffmanDecoding.{waiting_bits, IsClear, IsCodedOn, Decodes};
ghost use Rattle.wtp_huffman.specs.HuffmanDecoding.{TellsAscii, window_of, InRow, IsWord};
ghost use Rattle.wtp_huffman.specs.HuffmanDecoding.{AppendsDecoded};
ghost use Rattle.wtp_huffman.specs.HuffmanEncoding.{BeginsWith};
ghost use Rattle.wtp_huffman.specs.declared.huffman.HuffmanError.TheVariants.{Invalid, Memory};

use super::HuffmanError;
use super::pairs::{PAIR_BITS, pair_entry};
use super::rows::{ROWS, SHORTEST, WINDOW, row_number, symbol_number};
use super::short::{LONGEST_SHORT, SHORT_LIMIT, short_entry};
use std::alloc::Global;
use std::mem::replace;

/// The symbol EOS (RFC 7541, section 5.2), which no text contains.
const END: u16 = 256;

/// The number of bits after a window in a 64-bit number.
const AFTER_WINDOW: u32 = u64::BITS - WINDOW;

/// The number of bits after the ones that look up one or two short words, in a 64-bit number.
const AFTER_PAIR: u32 = u64::BITS - PAIR_BITS;

/// The number of bits after four bytes in a 64-bit number.
const AFTER_FOUR: u32 = u64::BITS - u32::BITS;

/// The number of bits after a byte in a 64-bit number.
const AFTER_BYTE: u32 = u64::BITS - u8::BITS;

/// The number of bits of a window after the first eight, which look up a short word.
const AFTER_SHORT: u32 = WINDOW - LONGEST_SHORT;

/// Waiting bits below this number begin with a short word.
const SHORT_END: u64 = (SHORT_LIMIT as u64) << AFTER_WINDOW;

/// The window of ones only: padding, or the word of EOS.
const ONES: u32 = (1 << WINDOW) - 1;

/// A symbol, and the length of its word in bits.
#[derive(Clone, Copy)]
struct Found {
    bits: u32,
    symbol: u16,
}

/// Decodes a Huffman-encoded text.
///
/// The bytes must be code words followed by fewer than eight one bits (RFC 7541, section 5.2).
/// Allocates once: one byte for every five bits, because no word is shorter.
///
/// Returns [`HuffmanError::Invalid`] for other bytes, and [`HuffmanError::Memory`] if allocation
/// fails. An empty text allocates nothing and never fails.
pub fn decode(alloc: Global, text: &[u8]) -> Result<Vec<u8>, HuffmanError>
    ensures found { IfOk result (λ t. IsHuffman t.items text.now) }
    ensures only { (t : List ℕ) → IsHuffman t text.now
        → MatchResult result (λ v. v.items ≡ t) (λ e. e ≡ Memory) }
    ensures empty { length text.now ≡ 0 → IsOk result }
{
    let mut out = Vec::with_capacity(alloc, most_bytes(text))?;
    decode_to(&mut out, text)?;
    Ok(out)
}

/// Returns an upper bound of the decoded length in bytes: one byte for every five bits.
fn most_bytes(text: &[u8]) -> usize
    ensures enough { 8 * length text.now < SHORTEST * result + SHORTEST }
    ensures none { length text.now ≡ 0 → result ≡ 0 }
{
    text.len() / SHORTEST * 8 + text.len() % SHORTEST * 8 / SHORTEST
}

/// Replaces the contents of `out` with the decoded text, and returns whether the text is ASCII. Few
/// bytes are tested for that, because every short word stands for an ASCII byte. If the capacity of
/// `out` is less than twice the length of the encoded text, allocates once, at least twice that
/// length: more than enough, and quickly computed.
///
/// Returns [`HuffmanError::Invalid`] if the bytes are not code words followed by fewer than eight
/// one bits (RFC 7541, section 5.2), and [`HuffmanError::Memory`] if an allocation fails. After an
/// error, `out` is empty. An empty text never fails.
pub fn decode_into(out: &mut Vec<u8>, text: &[u8]) -> Result<bool, HuffmanError>
    ensures found { OnOk result (IsHuffman out.new.items text.now) }
    ensures only { (t : List ℕ) → IsHuffman t text.now
        → MatchResult result (λ _. out.new.items ≡ t) (λ e. e ≡ Memory) }
    ensures ascii { IfOk result (λ is_ascii. TellsAscii is_ascii out.new.items) }
    ensures err { OnErr result (out.new.items ≡ []) }
    // With room for twice the length of the encoded text, nothing is allocated.
    ensures room { 2 * length text.now ≤ vec_capacity out.old
        → vec_capacity out.new ≡ vec_capacity out.old }
    ensures memory { result ≡ Err Memory → vec_capacity out.old < 2 * length text.now }
    ensures capacity { vec_capacity out.old ≤ vec_capacity out.new }
    ensures empty { length text.now ≡ 0 → IsOk result }
{
    out.clear();
    append_decoded(out, text)
}

/// Appends the decoded text to `out`, and returns whether the text is ASCII. If `out` has room for
/// less than twice the length of the encoded text, allocates once.
///
/// Returns [`HuffmanError::Invalid`] if the bytes are not code words followed by fewer than eight
/// one bits (RFC 7541, section 5.2), and [`HuffmanError::Memory`] if an allocation fails. After an
/// error, the contents of `out` are unchanged. An empty text never fails.
pub fn append_decoded(out: &mut Vec<u8>, text: &[u8]) -> Result<bool, HuffmanError>
    ensures found { IfOk result (λ is_ascii.
        AppendsDecoded text.now out.old.items is_ascii out.new.items) }
    ensures only { (t : List ℕ) → IsHuffman t text.now
        → MatchResult result (λ _. out.new.items ≡ out.old.items ++ t) (λ e. e ≡ Memory) }
    ensures err { OnErr result (out.new.items ≡ out.old.items) }
    ensures size { OnOk result (SHORTEST * vec_len out.new
        ≤ SHORTEST * vec_len out.old + 8 * length text.now) }
    // With room for twice the length of the encoded text, nothing is allocated.
    ensures room { vec_len out.old + 2 * length text.now ≤ vec_capacity out.old
        → vec_capacity out.new ≡ vec_capacity out.old }
    ensures memory { result ≡ Err Memory
        → vec_capacity out.old < vec_len out.old + 2 * length text.now }
    ensures capacity { vec_capacity out.old ≤ vec_capacity out.new }
    ensures empty { length text.now ≡ 0 → IsOk result }
{
    let start = out.len();
    let capacity = text.len() * 2;
    if out.capacity() - start < capacity {
        out.reserve(capacity)?;
    }
    let none = Vec::new(*out.allocator());
    let mut decoded = replace(out, none);
    let is_ascii = decode_to(&mut decoded, text);
    if is_ascii.is_err() {
        decoded.truncate(start);
    }
    *out = decoded;
    is_ascii
}

/// Appends the decoded text to a vector that has room for one byte for every five bits. Returns
/// whether the text is ASCII, or `Invalid`. After an error, `out` still begins with its old
/// contents.
///
/// The vector is a local variable of the caller, so that the compiler keeps its length in a
/// register.
#[inline(always)]
fn decode_to(out: &mut Vec<u8>, text: &[u8]) -> Result<bool, HuffmanError>
    requires room { SHORTEST * vec_len out.old + 8 * length text.now
        < SHORTEST * vec_capacity out.old + SHORTEST }
    ensures found { IfOk result (λ is_ascii.
        AppendsDecoded text.now out.old.items is_ascii out.new.items) }
    ensures only { (t : List ℕ) → IsHuffman t text.now
        → IsOkAnd result (λ _. out.new.items ≡ out.old.items ++ t) }
    ensures fault { IfErr result (λ e. e ≡ Invalid) }
    ensures front { BeginsWith out.old.items out.new.items }
    ensures size { OnOk result (SHORTEST * vec_len out.new
        ≤ SHORTEST * vec_len out.old + 8 * length text.now) }
    ensures same { vec_capacity out.new ≡ vec_capacity out.old }
    ensures empty { length text.now ≡ 0 → IsOk result }
{
    let mut rest = text;
    let mut waiting = 0;
    let mut held = 0;
    let mut is_ascii = true;
    'windows: loop {
        (rest, waiting, held) = refill(rest, waiting, held);
        if held < WINDOW {
            break;
        }
        (waiting, held, is_ascii) = take_words(out, waiting, held, is_ascii)?;
    }
    'last: loop {
        if held >= PAIR_BITS && waiting < SHORT_END {
            (waiting, held) = take_short(out, waiting, held);
            continue;
        }
        let window = last_window(waiting, held);
        if is_padding(window, held) {
            return Ok(is_ascii);
        }
        let word = word_at(window);
        if word.bits > held {
            return Err(HuffmanError::Invalid);
        }
        is_ascii = push_any(out, byte_of(word)?, is_ascii);
        held -= word.bits;
        waiting <<= word.bits;
    }
}

/// Decodes one or more words at the start of the waiting bits. Returns the bits still waiting,
/// their number, and whether the text so far is ASCII. `out` must have room for one byte for every
/// five waiting bits.
#[inline(always)]
fn take_words(
    out: &mut Vec<u8>,
    waiting: u64,
    held: u32,
    is_ascii: bool,
) -> Result<(u64, u32, bool), HuffmanError>
    requires enough { WINDOW ≤ held }
    requires few { held < 64 }
    requires clear { IsClear held waiting }
    requires room { SHORTEST * vec_len out.old + held < SHORTEST * vec_capacity out.old + SHORTEST }
    ensures taken { IfOk result (λ r.
        Decodes out.old.items is_ascii held waiting out.new.items r.2 r.1 r.0) }
    ensures fails { IsCodedOn held waiting → IsOk result }
    ensures fault { IfErr result (λ e. e ≡ Invalid) }
    ensures err { OnErr result (out.new.items ≡ out.old.items) }
    ensures room { IfOk result (λ r.
        SHORTEST * vec_len out.new + r.1 ≤ SHORTEST * vec_len out.old + held) }
    ensures same { vec_capacity out.new ≡ vec_capacity out.old }
{
    if waiting >= SHORT_END {
        return take_word(out, waiting, held, is_ascii);
    }
    let (waiting, held) = take_short(out, waiting, held);
    if waiting >= SHORT_END {
        return Ok((waiting, held, is_ascii));
    }
    let (waiting, held) = take_short(out, waiting, held);
    Ok((waiting, held, is_ascii))
}

/// Decodes the word at the start of the waiting bits. Returns the same as `take_words`.
#[inline(always)]
fn take_word(
    out: &mut Vec<u8>,
    waiting: u64,
    held: u32,
    is_ascii: bool,
) -> Result<(u64, u32, bool), HuffmanError>
    requires enough { WINDOW ≤ held }
    requires few { held < 64 }
    requires clear { IsClear held waiting }
    requires room { vec_len out.old < vec_capacity out.old }
    ensures taken { IfOk result (λ r.
        Decodes out.old.items is_ascii held waiting out.new.items r.2 r.1 r.0) }
    ensures fails { IsCodedOn held waiting → IsOk result }
    ensures fault { IfErr result (λ e. e ≡ Invalid) }
    ensures err { OnErr result (out.new.items ≡ out.old.items) }
    ensures room { IfOk result (λ r.
        SHORTEST * vec_len out.new + r.1 ≤ SHORTEST * vec_len out.old + held) }
    ensures same { vec_capacity out.new ≡ vec_capacity out.old }
{
    let word = word_at((waiting >> AFTER_WINDOW) as u32);
    let is_ascii = push_any(out, byte_of(word)?, is_ascii);
    Ok((waiting << word.bits, held - word.bits, is_ascii))
}

/// Appends a byte, and returns whether the text is still ASCII.
#[inline(always)]
fn push_any(out: &mut Vec<u8>, byte: u8, is_ascii: bool) -> bool
    requires room { vec_len out.old < vec_capacity out.old }
    ensures items { out.new.items ≡ out.old.items ++ byte ∷ [] }
    ensures len { vec_len out.new ≡ vec_len out.old + 1 }
    ensures same { vec_capacity out.new ≡ vec_capacity out.old }
    ensures ascii { (text : List ℕ) → TellsAscii is_ascii text
        → TellsAscii result (text ++ byte ∷ []) }
{
    out.push_reserved(byte);
    is_ascii && byte < 128
}

/// Decodes the one or two short words within the first twelve waiting bits to ASCII bytes. Returns
/// the bits still waiting and their number.
#[inline(always)]
fn take_short(out: &mut Vec<u8>, waiting: u64, held: u32) -> (u64, u32)
    requires enough { PAIR_BITS ≤ held }
    requires few { held < 64 }
    requires short { waiting < SHORT_END }
    requires clear { IsClear held waiting }
    requires room { vec_len out.old + 2 ≤ vec_capacity out.old }
    ensures taken { (is_ascii : Bool)
        → Decodes out.old.items is_ascii held waiting out.new.items is_ascii result.1 result.0 }
    ensures most { held ≤ result.1 + PAIR_BITS }
    ensures room { SHORTEST * vec_len out.new + result.1 ≤ SHORTEST * vec_len out.old + held }
    ensures same { vec_capacity out.new ≡ vec_capacity out.old }
{
    let (bits, spare, first, second) = pair_entry((waiting >> AFTER_PAIR) as usize);
    push_some(out, first, second, spare as usize);
    (waiting << bits, held - u32::from(bits))
}

/// Appends the first `2 - spare` of two bytes. The new length is computed with `saturating_sub`,
/// which compiles without a branch on the count.
#[inline(always)]
fn push_some(out: &mut Vec<u8>, first: u8, second: u8, spare: usize)
    requires few { spare ≤ 2 }
    requires room { vec_len out.old + 2 ≤ vec_capacity out.old }
    ensures items { out.new.items ≡ out.old.items ++ take (2 - spare) (first ∷ second ∷ []) }
    ensures len { vec_len out.new + spare ≡ vec_len out.old + 2 }
    ensures same { vec_capacity out.new ≡ vec_capacity out.old }
{
    out.push_reserved(first);
    out.push_reserved(second);
    out.truncate(out.len().saturating_sub(spare));
}

/// Takes bytes from the start of `rest` until at least one window of bits is waiting or no byte is
/// left. The waiting bits are the highest `held` bits of `waiting`; the other bits are zero.
fn refill(mut rest: &[u8], mut waiting: u64, mut held: u32) -> (&[u8], u64, u32)
    requires few { held < 64 }
    requires clear { IsClear held waiting }
    ensures same { waiting_bits result.2 result.1 ++ bits_of result.0.now
        ≡ waiting_bits held waiting ++ bits_of rest.now }
    ensures clear { IsClear result.2 result.1 }
    ensures few { result.2 < 64 }
    ensures enough { result.2 < WINDOW → length result.0.now ≡ 0 }
    ensures size { 8 * length result.0.now + result.2 ≡ 8 * length rest.now + held }
{
    while held < WINDOW {
        match rest.first_chunk::<4>() {
            Some(front) => {
                waiting += u64::from(number_of(front)) << (AFTER_FOUR - held);
                held += u32::BITS;
                rest = rest.split_at(4).1;
            }
            None => match rest.split_first() {
                Some((byte, others)) => {
                    waiting += u64::from(*byte) << (AFTER_BYTE - held);
                    held += u8::BITS;
                    rest = others;
                }
                None => return (rest, waiting, held),
            },
        }
    }
    (rest, waiting, held)
}

/// Returns the big-endian value of four bytes.
fn number_of(four: &[u8; 4]) -> u32
    ensures { bits_of four.now ≡ low_bits 32 result }
{
    u32::from_be_bytes(*four)
}

/// Returns the window of the last waiting bits, filled with ones.
fn last_window(waiting: u64, held: u32) -> u32
    requires few { held < WINDOW }
    requires clear { IsClear held waiting }
    ensures value { result ≡ window_of WINDOW (waiting_bits held waiting) }
    ensures small { result < 2 ^ WINDOW }
{
    (waiting >> AFTER_WINDOW) as u32 + ((1 << (WINDOW - held)) - 1)
}

/// Returns the byte of a word, or `Invalid` for the word of EOS.
fn byte_of(word: Found) -> Result<u8, HuffmanError>
    requires { word.symbol < 257 }
    ensures { MatchResult result
        (λ byte. (byte ≡ word.symbol) × (byte < 256))
        (λ e. (e ≡ Invalid) × (word.symbol ≡ END)) }
{
    if word.symbol == END {
        return Err(HuffmanError::Invalid);
    }
    Ok(word.symbol as u8)
}

/// Returns whether the last bits, fewer than a window, are valid padding.
fn is_padding(window: u32, held: u32) -> bool
    ensures { IsTrue result ↔ ((held < 8) × (window ≡ ONES)) }
{
    if held > 7 {
        return false;
    }
    window == ONES
}

/// Returns the word at the start of a window.
fn word_at(window: u32) -> Found
    requires { window < 2 ^ WINDOW }
    ensures { IsWord window result.bits result.symbol }
{
    if window < SHORT_LIMIT {
        short_word(window)
    } else {
        word_in(window, any_row(window))
    }
}

/// Returns the word at the start of a window in row k.
fn word_in(window: u32, k: usize) -> Found
    requires row { InRow window k }
    ensures { IsWord window result.bits result.symbol }
{
    let row = row_number(k);
    let rank = (window >> (WINDOW - row.bits)) - row.first;
    Found {
        bits: row.bits,
        symbol: symbol_number(row.skipped + rank as usize),
    }
}

/// Returns the word at the start of a window that begins with a short word.
fn short_word(window: u32) -> Found
    requires { window < SHORT_LIMIT }
    ensures { IsWord window result.bits result.symbol }
{
    let (bits, byte) = short_entry((window >> AFTER_SHORT) as usize);
    Found {
        bits: u32::from(bits),
        symbol: u16::from(byte),
    }
}

/// Returns the row of a window: the first one whose limit is above it.
fn any_row(window: u32) -> usize
    requires { window < 2 ^ WINDOW }
    ensures { InRow window result }
{
    for (k, row) in ROWS.iter().enumerate() {
        if window < row.limit {
            return k;
        }
    }
    unreachable!()
}
