//! The two numbers at the start of a frame, a capsule or a setting: a type or an identifier, then a
//! length, a session ID or a value.
ghost use Rattle.std.specs.Prelude.{◌≡◌, ◌≢◌, ◌+◌, ◌-◌, ◌<◌, ◌≤◌, ◌↔◌, length, drop, Some, None, MatchOption, IfSome};
ghost use Rattle.wtp_wire.specs.FrameNeed.{frame_need};
ghost use Rattle.wtp_wire.specs.Settings.{pair_at};

use wtp_core::bytes::get::varint_len_needed;
use wtp_core::varint::{VarInt, first_varint};

/// The two numbers at the start of some bytes.
#[derive(Clone, Copy, Debug, PartialEq, Eq)]
pub struct FirstPair {
    /// The first number.
    pub first: VarInt,
    /// The second number.
    pub second: VarInt,
    /// The total size of both encodings in bytes.
    pub size: usize,
}

/// Returns the two numbers at the start of the bytes (RFC 9000, section 16), or `None` if they are
/// not both complete.
#[inline(always)]
#[tactic(auto, unfolding(crate::specs::Settings::pair_at))]
pub fn first_pair(bytes: &[u8]) -> Option<FirstPair>
    ensures found { MatchOption result (pair_at bytes.now ≡ None)
        (λ p. pair_at bytes.now ≡ Some ((p.first, p.second), drop p.size bytes.now)) }
    ensures within { IfSome result (λ p. p.size ≤ length bytes.now) }
    ensures some { IfSome result (λ p. 0 < p.size) }
{
    let (first, first_size) = first_varint(bytes)?;
    let (second, second_size) = first_varint(&bytes[first_size..])?;
    Some(FirstPair {
        first,
        second,
        size: first_size + second_size,
    })
}

/// Returns the minimum size of two numbers that start with these bytes: from 2 to 16 bytes. If both
/// numbers are complete, this is their size.
#[inline(always)]
pub fn pair_size(bytes: &[u8]) -> usize
    ensures size { result ≡ frame_need bytes.now }
    ensures least { 2 ≤ result }
    ensures most { result ≤ 16 }
{
    let first = varint_len_needed(bytes);
    first + varint_len_needed(bytes.get(first..).unwrap_or(&[]))
}

/// Returns the minimum number of bytes missing from two numbers that start with these bytes: 0
/// exactly if both numbers are complete.
pub fn missing_bytes(bytes: &[u8]) -> usize
    ensures missing { result ≡ frame_need bytes.now - length bytes.now }
    ensures complete { (result ≡ 0) ↔ (pair_at bytes.now ≢ None) }
{
    pair_size(bytes).saturating_sub(bytes.len())
}
