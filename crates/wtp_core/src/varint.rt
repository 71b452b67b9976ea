//! Variable-length integers of QUIC (RFC 9000, section 16).
ghost use Rattle.std.specs.Prelude.{◌≡◌, ◌^◌, ◌<◌, ◌≤◌, ℕ, length, drop, Some, None, MatchOption, IfSome};
ghost use Rattle.std.specs.Int.{byte_len};
ghost use Rattle.std.specs.Result.{OkIff};
ghost use Rattle.wtp_core.specs.Varint.{width_of, number_at, shortest};

use crate::ids::StreamId;
use std::fmt;
use std::marker::Model;

/// The number is 2^62 or more.
#[derive(Debug, Drop, PartialEq, Eq, thiserror::Error)]
#[error("varint value is out of bounds")]
pub struct VarIntBoundsExceeded;

/// An integer from 0 to 2^62 - 1, which QUIC and HTTP/3 encode in 1, 2, 4 or 8 bytes.
#[derive(Clone, Copy, PartialEq, Eq, PartialOrd, Ord, Hash)]
pub struct VarInt {
    pub(crate) value: u64,
}

impl Model for VarInt {
    ghost Value = { ℕ };

    ghost view = { λ v. v.value };

    ghost invariant = { λ v. v.value < 2 ^ 62 };

    ghost inverse = { λ n. record { value = n } };
}

impl VarInt {
    /// The largest value, 2^62 - 1.
    pub const MAX: VarInt = VarInt {
        value: 0x3fff_ffff_ffff_ffff,
    };

    /// The smallest value, 0.
    pub const MIN: VarInt = VarInt { value: 0 };

    /// The maximum size of an encoding, in bytes.
    pub const MAX_SIZE: usize = 8;

    /// Creates the integer `value`.
    pub fn from_u32(value: u32) -> Self
        ensures { result ≡ value }
    {
        VarInt {
            value: u64::from(value),
        }
    }

    /// Creates the integer `value`. Returns an error if it is 2^62 or more.
    pub fn try_from_u64(value: u64) -> Result<Self, VarIntBoundsExceeded>
        ensures { OkIff result (value < 2 ^ 62) value }
    {
        if value <= Self::MAX.value {
            Ok(VarInt { value })
        } else {
            Err(VarIntBoundsExceeded)
        }
    }

    /// Creates the integer `value`. Requires that it is less than 2^62.
    pub fn from_u64_unchecked(value: u64) -> Self
        requires { value < 2 ^ 62 }
        ensures { result ≡ value }
    {
        VarInt { value }
    }

    /// Returns the value.
    pub fn into_inner(self) -> u64
        ensures value { result ≡ self }
        ensures below { self < 2 ^ 62 }
    {
        self.value
    }

    /// Returns the size of the shortest encoding in bytes: 1, 2, 4 or 8.
    #[tactic(auto, unfolding(crate::specs::Varint::shortest))]
    pub fn size(self) -> usize
        ensures size { result ≡ length (shortest self) }
        ensures most { result ≤ 8 }
    {
        if self.value < 0x40 {
            1
        } else if self.value < 0x4000 {
            2
        } else if self.value < 0x4000_0000 {
            4
        } else {
            8
        }
    }

    /// Returns the size, in bytes, of an encoding whose first byte is `first`.
    pub fn parse_size(first: u8) -> usize
        ensures { result ≡ byte_len (width_of first) }
    {
        match first >> 6 {
            0 => 1,
            1 => 2,
            2 => 4,
            _ => 8,
        }
    }
}

/// Decodes the integer at the start of `bytes`. Returns its value and the size of its encoding in
/// bytes, or `None` if there are too few bytes.
#[tactic(auto, unfolding(crate::specs::Varint::number_at, crate::specs::Varint::value_of))]
#[inline(always)]
pub fn first_varint(bytes: &[u8]) -> Option<(VarInt, usize)>
    ensures found { MatchOption result (number_at bytes.now ≡ None)
        (λ x. number_at bytes.now ≡ Some (x.0, drop x.1 bytes.now)) }
    ensures positive { IfSome result (λ x. 0 < x.1) }
    ensures within { IfSome result (λ x. x.1 ≤ length bytes.now) }
{
    let first = *bytes.first()?;
    if first < 64 {
        let value = u64::from(first);
        Some((VarInt { value }, 1))
    } else if first < 128 {
        let front = bytes.first_chunk::<2>()?;
        let value = u64::from(u16::from_be_bytes(*front)) % 0x4000;
        Some((VarInt { value }, 2))
    } else if first < 192 {
        let front = bytes.first_chunk::<4>()?;
        let value = u64::from(u32::from_be_bytes(*front)) % 0x4000_0000;
        Some((VarInt { value }, 4))
    } else {
        let front = bytes.first_chunk::<8>()?;
        let value = u64::from_be_bytes(*front) % 0x4000_0000_0000_0000;
        Some((VarInt { value }, 8))
    }
}

impl Default for VarInt {
    ghost is_default = { λ v. v ≡ 0 };

    fn default() -> Self {
        VarInt { value: 0 }
    }
}

impl From<u8> for VarInt {
    ghost from_gives = { λ n v. v ≡ n };

    fn from(value: u8) -> Self {
        VarInt {
            value: u64::from(value),
        }
    }
}

impl From<u16> for VarInt {
    ghost from_gives = { λ n v. v ≡ n };

    fn from(value: u16) -> Self {
        VarInt {
            value: u64::from(value),
        }
    }
}

impl From<u32> for VarInt {
    ghost from_gives = { λ n v. v ≡ n };

    fn from(value: u32) -> Self {
        VarInt {
            value: u64::from(value),
        }
    }
}

impl From<StreamId> for VarInt {
    ghost from_gives = { λ id v. v ≡ id };

    fn from(value: StreamId) -> Self {
        value.into_varint()
    }
}

impl TryFrom<u64> for VarInt {
    type Error = VarIntBoundsExceeded;

    ghost try_from_gives = { λ n r. OkIff r (n < 2 ^ 62) n };

    fn try_from(value: u64) -> Result<Self, VarIntBoundsExceeded> {
        VarInt::try_from_u64(value)
    }
}

impl From<VarInt> for u64 {
    ghost from_gives = { λ v n. n ≡ v };

    fn from(value: VarInt) -> Self {
        value.value
    }
}

impl fmt::Display for VarInt {
    ghost use Rattle.std.specs.Prelude.{Some};
    ghost use Rattle.std.specs.Fmt.{decimal, styled_decimal};

    ghost output = { λ v. Some (decimal v) };

    ghost styled_output = { λ v style. Some (styled_decimal style v) };

    fn fmt<W: fmt::Write>(&self, f: &mut fmt::Formatter<W>) -> fmt::Result {
        fmt::Display::fmt(&self.value, f)
    }
}

impl fmt::Debug for VarInt {
    ghost use Rattle.std.specs.Prelude.{Some};
    ghost use Rattle.std.specs.Fmt.{decimal};

    ghost debug_output = { λ v. Some (decimal v) };

    fn fmt<W: fmt::Write>(&self, f: &mut fmt::Formatter<W>) -> fmt::Result {
        fmt::Display::fmt(self, f)
    }
}

// The bounds (RFC 9000, section 16).
const _: () = prove!(VarInt::MAX.value == 0x3fff_ffff_ffff_ffff);

const _: () = prove!(VarInt::MIN.value == 0);

const _: () = prove!(VarInt::MAX_SIZE == 8);
