//! Huffman encoding of text.
ghost use Rattle.std.specs.Prelude.{◌≡◌, ℕ, ◌*◌, ◌+◌, ◌%◌, ◌<◌, ◌≤◌, ◌^◌, ◌++◌, Bool, List, length};
ghost use Rattle.std.specs.Prelude.{IfOk, OnOk, OnErr, IsOk, MatchOption, SomeIff};
ghost use Rattle.std.specs.Vec.{vec_len, vec_capacity};
ghost use Rattle.wtp_huffman.specs.Huffman.{bits_of, low_bits, code, text_code, coded_len, IsBytes};
ghost use Rattle.wtp_huffman.specs.Huffman.{IsHuffman, IsPadding};
ghost use Rattle.wtp_huffman.specs.declared.huffman.rows.TheConstants.{LONGEST};
ghost use Rattle.wtp_huffman.specs.HuffmanEncoding.{Adds, AppendsHuffman, BeginsWith, IsNumberOf};
ghost use Rattle.wtp_huffman.specs.HuffmanEncoding.{GivesOut};

use super::codes::code_of;
use std::alloc::{AllocError, Global};

/// The number of bytes whose code lengths are summed at a time, small enough that the sum fits in a
/// `u64`.
const PART: usize = 1 << 32;

/// The maximum number of bits that can be added to up to seven waiting ones: together fewer than
/// 64.
const MOST: u32 = u64::BITS - u8::BITS;

/// The lowest `count` bits of a number. Its higher bits are ignored.
#[derive(Clone, Copy)]
struct Bits {
    count: u32,
    number: u64,
}

/// Encodes a text: its code words, padded with ones to a whole byte (RFC 7541, section 5.2).
///
/// Allocates once, eight bytes more than the length of the text, and again only if the encoded text
/// is longer.
///
/// Returns [`AllocError`] if allocation fails. An empty text allocates nothing and never fails.
pub fn encode(alloc: Global, text: &[u8]) -> Result<Vec<u8>, AllocError>
    ensures coded { IfOk result (λ s. IsHuffman text.now s.items) }
    ensures empty { length text.now ≡ 0 → IsOk result }
{
    let mut out = Vec::with_capacity(alloc, room_for(text))?;
    append(&mut out, text)?;
    Ok(out)
}

/// Returns the initial capacity for a text: eight bytes more than its length, because eight bytes
/// are written at a time.
fn room_for(text: &[u8]) -> usize
    ensures none { length text.now ≡ 0 → result ≡ 0 }
    ensures some { 0 < length text.now → result ≡ length text.now + 8 }
{
    if text.is_empty() { 0 } else { text.len() + 8 }
}

/// Appends the code words of a text, padded with ones to a whole byte (RFC 7541, section 5.2).
///
/// Returns [`AllocError`] if allocation fails. This cannot happen if `out` has room for the encoded
/// text and eight more bytes. After an error, `out` still begins with its old contents, and what
/// follows is unspecified. An empty text never fails.
pub fn append(out: &mut Vec<u8>, text: &[u8]) -> Result<(), AllocError>
    ensures coded { OnOk result (AppendsHuffman text.now out.old.items out.new.items) }
    ensures front { BeginsWith out.old.items out.new.items }
    ensures full { OnErr result
        (vec_capacity out.old < vec_len out.old + coded_len text.now + 8) }
    ensures capacity { vec_capacity out.old ≤ vec_capacity out.new }
    ensures empty { length text.now ≡ 0 → IsOk result }
{
    are_bytes(out.as_slice());
    let mut waiting = Bits {
        count: 0,
        number: 0,
    };
    let mut rest = text;
    while let Some((four, next, others)) = split_eight(rest) {
        waiting = add_eight(out, waiting, four, next)?;
        rest = others;
    }
    for byte in rest {
        waiting = add_word(out, waiting, *byte)?;
    }
    give_last(out, waiting)?;
    are_bytes(out.as_slice());
    Ok(())
}

/// Ghost fact: every byte is below 256.
fn are_bytes(bytes: &[u8])
    ensures { IsBytes bytes.now }
{}

/// Returns the length of the encoded text in bytes, or `None` exactly if it exceeds `usize::MAX`.
pub fn encoded_len(text: &[u8]) -> Option<usize>
    ensures value { SomeIff result (coded_len text.now < 2 ^ 64) (coded_len text.now) }
    ensures length { (s : List ℕ) → IsHuffman text.now s → length s ≡ coded_len text.now }
{
    let mut bytes = 0usize;
    let mut bits = 0u64;
    let mut rest = text;
    while !rest.is_empty() {
        let (front, others) = rest.split_at(rest.len().min(PART));
        bits += word_bits(front);
        bytes = bytes.checked_add((bits / 8) as usize)?;
        bits %= 8;
        rest = others;
    }
    if bits > 0 {
        bytes.checked_add(1)
    } else {
        Some(bytes)
    }
}

/// Returns the total length of a text's code words in bits.
fn word_bits(text: &[u8]) -> u64
    requires { length text.now ≤ PART }
    ensures value { result ≡ length (text_code text.now) }
    ensures small { result ≤ LONGEST * PART }
{
    let mut bits = 0;
    for byte in text {
        bits += u64::from(code_of(*byte).bits);
    }
    bits
}

/// Returns the code word of a byte.
#[inline(always)]
fn word(byte: u8) -> Bits
    ensures bits { low_bits result.count result.number ≡ code byte }
    ensures fits { result.number < 2 ^ result.count }
    ensures some { 0 < result.count }
    ensures most { result.count ≤ LONGEST }
{
    let code = code_of(byte);
    Bits {
        count: code.bits,
        number: u64::from(code.number),
    }
}

/// Returns the concatenated code words of four bytes. The bits are meaningful only if there are at
/// most 64.
#[inline(always)]
fn words_of(four: &[u8; 4]) -> Bits
    ensures words { result.count ≤ 64 → IsNumberOf (text_code four.now) result.count result.number }
    ensures some { 0 < result.count }
    ensures most { result.count ≤ 4 * LONGEST }
{
    let [a, b, c, d] = *four;
    join(join(word(a), word(b)), join(word(c), word(d)))
}

/// Appends `back` to `front`. The bits are meaningful only if there are at most 64.
#[inline(always)]
fn join(front: Bits, back: Bits) -> Bits
    requires few { front.count < 64 }
    requires fewer { back.count < 64 }
    requires fits { back.number < 2 ^ back.count }
    ensures count { result.count ≡ front.count + back.count }
    ensures bits { result.count ≤ 64 → low_bits result.count result.number
        ≡ low_bits front.count front.number ++ low_bits back.count back.number }
    ensures fits { result.count ≤ 64 → front.number < 2 ^ front.count
        → result.number < 2 ^ result.count }
{
    Bits {
        count: front.count + back.count,
        number: (front.number << back.count) + back.number,
    }
}

/// Returns the first four bytes, the next four, and the remainder; `None` if there are fewer than
/// eight bytes.
#[inline(always)]
fn split_eight(text: &[u8]) -> Option<(&[u8; 4], &[u8; 4], &[u8])>
    ensures { MatchOption result (length text.now < 8) (λ p.
        (text.now ≡ (p.0.now ++ p.1.now) ++ p.2.now)
        × (length p.2.now + 8 ≡ length text.now)) }
{
    let (four, others) = text.split_first_chunk::<4>()?;
    let (next, others) = others.split_first_chunk::<4>()?;
    Some((four, next, others))
}

/// Appends the code words of eight bytes, and returns the bits still waiting.
#[inline(always)]
fn add_eight(
    out: &mut Vec<u8>,
    waiting: Bits,
    four: &[u8; 4],
    next: &[u8; 4],
) -> Result<Bits, AllocError>
    requires few { waiting.count < 8 }
    ensures added { IfOk result (λ r. Adds 8 (text_code four.now ++ text_code next.now)
        out.old.items waiting.count waiting.number
        out.new.items r.count r.number) }
    ensures front { BeginsWith out.old.items out.new.items }
    ensures full { OnErr result (8 * vec_capacity out.old < 8 * vec_len out.old + waiting.count
        + length (text_code four.now) + length (text_code next.now) + 64) }
    ensures capacity { vec_capacity out.old ≤ vec_capacity out.new }
{
    let front = words_of(four);
    let back = words_of(next);
    if front.count + back.count <= MOST {
        return give_whole(out, join(waiting, join(front, back)));
    }
    let waiting = add_four(out, waiting, four, front)?;
    add_four(out, waiting, next, back)
}

/// Appends the code words of four bytes, and returns the bits still waiting.
#[inline(always)]
fn add_four(
    out: &mut Vec<u8>,
    waiting: Bits,
    four: &[u8; 4],
    words: Bits,
) -> Result<Bits, AllocError>
    requires few { waiting.count < 8 }
    requires some { 0 < words.count }
    requires words { words.count ≤ 64 → IsNumberOf (text_code four.now) words.count words.number }
    ensures added { IfOk result (λ r. Adds 8 (text_code four.now)
        out.old.items waiting.count waiting.number
        out.new.items r.count r.number) }
    ensures front { BeginsWith out.old.items out.new.items }
    ensures full { OnErr result (8 * vec_capacity out.old
        < 8 * vec_len out.old + waiting.count + length (text_code four.now) + 64) }
    ensures capacity { vec_capacity out.old ≤ vec_capacity out.new }
{
    if words.count <= MOST {
        return give_whole(out, join(waiting, words));
    }
    add_each(out, waiting, four)
}

/// Does the same as `add_four`, word by word.
#[cold]
#[inline(never)]
fn add_each(out: &mut Vec<u8>, waiting: Bits, four: &[u8; 4]) -> Result<Bits, AllocError>
    requires few { waiting.count < 8 }
    ensures added { IfOk result (λ r. Adds 8 (text_code four.now)
        out.old.items waiting.count waiting.number
        out.new.items r.count r.number) }
    ensures front { BeginsWith out.old.items out.new.items }
    ensures full { OnErr result (8 * vec_capacity out.old
        < 8 * vec_len out.old + waiting.count + length (text_code four.now) + 64) }
    ensures capacity { vec_capacity out.old ≤ vec_capacity out.new }
{
    let mut waiting = waiting;
    for byte in four {
        waiting = give_whole(out, join(waiting, word(*byte)))?;
    }
    Ok(waiting)
}

/// Adds the code word of a byte to the waiting bits. If they cannot hold it, appends their whole
/// bytes to `out` first.
#[inline(always)]
fn add_word(out: &mut Vec<u8>, waiting: Bits, byte: u8) -> Result<Bits, AllocError>
    requires few { waiting.count < 64 }
    ensures added { IfOk result (λ r. Adds 64 (code byte)
        out.old.items waiting.count waiting.number
        out.new.items r.count r.number) }
    ensures front { BeginsWith out.old.items out.new.items }
    ensures full { OnErr result (vec_capacity out.old < vec_len out.old + 8) }
    ensures capacity { vec_capacity out.old ≤ vec_capacity out.new }
{
    let word = word(byte);
    if waiting.count + word.count < 64 {
        return Ok(join(waiting, word));
    }
    let waiting = give_whole(out, waiting)?;
    Ok(join(waiting, word))
}

/// Appends the whole bytes of the waiting bits, and returns the bits still waiting. Always writes
/// eight bytes, and then truncates those that are not whole.
#[inline(always)]
fn give_whole(out: &mut Vec<u8>, waiting: Bits) -> Result<Bits, AllocError>
    requires some { 0 < waiting.count }
    requires most { waiting.count ≤ 64 }
    ensures kept { IfOk result (λ r. GivesOut
        out.old.items waiting.count waiting.number
        out.new.items r.count r.number) }
    ensures left { IfOk result (λ r. r.count ≡ waiting.count % 8) }
    ensures front { BeginsWith out.old.items out.new.items }
    ensures full { OnErr result (vec_capacity out.old < vec_len out.old + 8) }
    ensures capacity { vec_capacity out.old ≤ vec_capacity out.new }
{
    let front = waiting.number << (64 - waiting.count);
    out.extend_from_slice(&front.to_be_bytes())?;
    out.truncate(out.len().saturating_sub(8 - (waiting.count / 8) as usize));
    Ok(Bits {
        count: waiting.count % 8,
        number: waiting.number,
    })
}

/// Appends all waiting bits, padded with ones to a whole byte.
#[inline(always)]
fn give_last(out: &mut Vec<u8>, waiting: Bits) -> Result<(), AllocError>
    requires few { waiting.count < 64 }
    ensures last { OnOk result ((pad : List Bool) × IsPadding pad
        × (bits_of out.new.items
        ≡ bits_of out.old.items ++ (low_bits waiting.count waiting.number ++ pad))) }
    ensures empty { waiting.count ≡ 0 → IsOk result }
    ensures front { BeginsWith out.old.items out.new.items }
    ensures full { OnErr result (vec_capacity out.old < vec_len out.old + 8) }
    ensures capacity { vec_capacity out.old ≤ vec_capacity out.new }
{
    if waiting.count == 0 {
        return Ok(());
    }
    let room = (64 - waiting.count) % 8;
    let ones = Bits {
        count: room,
        number: (1 << room) - 1,
    };
    give_whole(out, join(waiting, ones))?;
    Ok(())
}
