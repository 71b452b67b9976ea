//! The functions that the benchmark driver calls from C. Each returns a count, or -1 on an error.
//! The driver compares the bytes that they write.
#![tactic(auto)]

ghost use Rattle.std.specs.Prelude.{◌≡◌, ◌≢◌, ◌≤◌, ◌<◌, ℕ, pos, negsuc, List, length};
ghost use Rattle.wtp_huffman.specs.Huffman.{IsHuffman};

mod connection;
mod dynamic;
mod fields;
mod frames;
mod messages;
mod pair;
mod parts;
mod whole;

use std::alloc::Global;
use wtp_fields::huffman;

/// Copies bytes to the start of `out`. Returns their number, or -1 if `out` is too small.
fn put(bytes: &[u8], out: &mut [u8]) -> i64
    ensures count { length bytes.now ≤ length out.old → result ≡ pos (length bytes.now) }
    ensures none { length out.old < length bytes.now → result ≡ negsuc 0 }
{
    match out.split_at_mut_checked(bytes.len()) {
        Some((front, _)) => {
            front.copy_from_slice(bytes);
            bytes.len().cast_signed() as i64
        }
        None => -1,
    }
}

/// Decodes a Huffman-encoded string and writes the bytes to `out`.
#[unsafe(no_mangle)]
pub extern "C" fn wt_bench_huffman_decode(alloc: Global, text: &[u8], out: &mut [u8]) -> i64
    ensures { result ≢ negsuc 0 → (t : List ℕ) × IsHuffman t text.now × (result ≡ pos (length t)) }
{
    match huffman::decode(alloc, text) {
        Ok(plain) => put(plain.as_slice(), out),
        Err(_) => -1,
    }
}

/// Huffman-encodes a string and writes the bytes to `out`.
#[unsafe(no_mangle)]
pub extern "C" fn wt_bench_huffman_encode(alloc: Global, text: &[u8], out: &mut [u8]) -> i64
    ensures { result ≢ negsuc 0 → (s : List ℕ) × IsHuffman text.now s × (result ≡ pos (length s)) }
{
    match huffman::encode(alloc, text) {
        Ok(coded) => put(coded.as_slice(), out),
        Err(_) => -1,
    }
}
