//! Integers with a prefix of `N` bits (RFC 7541, section 5.1; RFC 9204, section 4.1.1).

ghost use Rattle.std.specs.Prelude.{◌≡◌, ◌+◌, ◌-◌, ◌*◌, ◌^◌, ◌<◌, ◌≤◌, [], ◌∷◌, ◌++◌, OnOk};
ghost use Rattle.std.specs.Prelude.{SomeIff};
ghost use Rattle.wtp_huffman.specs.HuffmanEncoding.{BeginsWith};
ghost use Rattle.wtp_qpack.specs.Integer.{integer_at, groups_at, shortest_int};
ghost use Rattle.wtp_qpack.specs.Qpack.{Gives};

use super::DecodingError;
use std::alloc::AllocError;

/// Returns `value + low * 2 ^ shift`, if that is less than 2^64.
fn add_group(value: u64, low: u64, shift: u32) -> Option<u64>
    requires { low < 128 }
    ensures { SomeIff result (value + low * 2 ^ shift < 2 ^ 64) (value + low * 2 ^ shift) }
{
    if low == 0 {
        return Some(value);
    }
    if shift >= 64 || low > u64::MAX >> shift {
        return None;
    }
    value.checked_add(low << shift)
}

/// Returns the number whose low `N` bits are ones, and no others.
fn ones<const N: u32>() -> u64
    requires { N ≤ 8 }
    ensures { result + 1 ≡ 2 ^ N }
{
    (1 << N) - 1
}

/// Reads the groups after a prefix of ones and adds them to its value. Returns the sum and the
/// bytes after the groups.
fn read_groups(prefix: u64, bytes: &[u8]) -> Result<(u64, &[u8]), DecodingError>
    ensures { Gives (λ x. (x.0, x.1.now)) result (groups_at prefix 0 bytes.now) }
{
    let mut value = prefix;
    // Groups of zeros may follow without limit, so the shift stops once no bit fits any more.
    let mut shift = 0u32;
    for (k, group) in bytes.iter().enumerate() {
        match add_group(value, u64::from(*group % 128), shift) {
            None => return Err(DecodingError::IntegerOverflow),
            Some(more) => value = more,
        }
        if *group < 128 {
            return Ok((value, bytes.split_at(k + 1).1));
        }
        shift = (shift + 7).min(70);
    }
    Err(DecodingError::UnexpectedFin)
}

/// Reads the integer at the start, in the low `N` bits of the first byte. Returns it and the bytes
/// after it.
pub fn read<const N: u32>(bytes: &[u8]) -> Result<(u64, &[u8]), DecodingError>
    requires some { 1 ≤ N }
    requires few { N ≤ 8 }
    ensures { Gives (λ x. (x.0, x.1.now)) result (integer_at N bytes.now) }
{
    let ones = ones::<N>();
    match bytes {
        [] => Err(DecodingError::UnexpectedFin),
        [first, ..] => {
            let rest = bytes.split_at(1).1;
            let value = u64::from(*first) % (ones + 1);
            if value == ones {
                read_groups(value, rest)
            } else {
                Ok((value, rest))
            }
        }
    }
}

/// Returns the byte of an integer that needs no group: the flags above its low `N` bits.
#[tactic(auto, unfolding(crate::specs::Integer::shortest_int))]
pub fn only_byte<const N: u32>(flags: u8, value: u64) -> u8
    requires some { 1 ≤ N }
    requires few { N ≤ 8 }
    requires above { flags < 2 ^ (8 - N) }
    requires below { value < 2 ^ N - 1 }
    ensures { result ∷ [] ≡ shortest_int N flags value }
{
    (u64::from(flags) * (ones::<N>() + 1) + value) as u8
}

/// Appends an integer: the flags above the low `N` bits of the first byte, and no unnecessary
/// group.
///
/// Returns [`AllocError`] if allocation fails. Then `out` begins with what it contained before, and
/// what follows is unspecified.
pub fn write<const N: u32>(out: &mut Vec<u8>, flags: u8, value: u64) -> Result<(), AllocError>
    requires some { 1 ≤ N }
    requires few { N ≤ 8 }
    requires above { flags < 2 ^ (8 - N) }
    ensures ok { OnOk result (out.new.items ≡ out.old.items ++ shortest_int N flags value) }
    ensures front { BeginsWith out.old.items out.new.items }
{
    let ones = ones::<N>();
    if value < ones {
        out.push(only_byte::<N>(flags, value))?;
        return Ok(());
    }
    out.push((u64::from(flags) * (ones + 1) + ones) as u8)?;
    let mut left = value - ones;
    while left >= 128 {
        out.push((left % 128 + 128) as u8)?;
        left /= 128;
    }
    out.push(left as u8)?;
    Ok(())
}
