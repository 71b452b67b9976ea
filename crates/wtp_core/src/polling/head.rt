//! Reading the head of an item: the bytes in front of its payload. The first bytes of a head
//! determine its length.
ghost use Rattle.std.specs.Prelude.{◌≡◌, ℕ, ◌<◌, ◌≤◌, List, ◌++◌, length, take, OnOk, OnErr};
ghost use Rattle.wtp_core.specs.Source.{HasModel};
ghost use Rattle.wtp_core.specs.Fill.{FillModel, InterruptWaits};

use crate::bytes::AsyncRead;
use crate::polling::fill::{Interrupted, fill};

/// A kind of head, given by the length that the bytes received so far determine.
pub trait Prefix {
    // The minimum length of a head that starts with these bytes.
    ghost len_needed: { List ℕ → ℕ };

    // An upper bound of `len_needed`.
    ghost max_len: { ℕ };

    /// Returns the minimum length of a head that starts with the bytes `held`.
    fn len_needed(held: &[u8]) -> usize
        requires { length held.now ≤ len_needed held.now }
        ensures { result ≡ len_needed held.now };

    ghost need_most: { (h : List ℕ) → len_needed h ≤ max_len };

    // It does not decrease when more bytes are received.
    ghost need_grows: { (h t : List ℕ) → len_needed h ≤ len_needed (h ++ t) };
}

/// Reads into `buf` from index `len` on until the head is complete, and takes no byte after it. A
/// head that is already complete is left unchanged.
///
/// On an error, the head is incomplete: all bytes received are in `buf[..len]`, the bytes before
/// the old `len` are unchanged, and a later call continues from there. The errors are those of
/// `fill`.
#[inline(always)]
pub fn fill_prefix<H: Prefix, S: AsyncRead>(
    source: &mut S,
    buf: &mut [u8],
    len: &mut usize,
) -> Result<(), Interrupted>
    requires within { len.old ≤ H.len_needed (take len.old buf.old) }
    requires room { H.max_len ≤ length buf.old }
    ensures whole { OnOk result (H.len_needed (take len.new buf.new) ≡ len.new) }
    ensures cut { OnErr result (len.new < H.len_needed (take len.new buf.new)) }
    ensures forward { len.old ≤ len.new }
    ensures front { take len.old buf.new ≡ take len.old buf.old }
    ensures room { len.new ≤ length buf.new }
    // A complete head is left unchanged.
    ensures stays { H.len_needed (take len.old buf.old) ≡ len.old
        → (len.new ≡ len.old) × (buf.new ≡ buf.old) }
    ensures model { FillModel result (take len.old buf.old) (take len.new buf.new)
        (S.model source.old) (S.model source.new) }
    ensures waits { HasModel (S.model source.old) (S.model source.new) (InterruptWaits result) }
{
    loop {
        let len_needed = H::len_needed(&buf[..*len]);
        if *len >= len_needed {
            return Ok(());
        }
        match fill(source, &mut buf[..len_needed], len) {
            Ok(()) => {}
            Err(interrupt) => return Err(interrupt),
        }
    }
}
