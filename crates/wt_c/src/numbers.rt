//! Variable-length integers (RFC 9000, section 16).
ghost use Rattle.std.specs.Prelude.{◌≡◌, ◌⊎◌, ◌≤◌, ◌<◌, ◌^◌, length, drop, Some, None, MatchOption};
ghost use Rattle.wtp_core.specs.Varint.{number_at, shortest};
ghost use Rattle.wt_c.specs.Numbers.{IsSessionNumber};
ghost use Rattle.wt_c.specs.Output.{WritesPrefix, TooShort};

use crate::output::write_number;
use crate::status::{BUFFER_TOO_SMALL, INVALID, MORE, OK};
use wtp_core::ids::SessionId;
use wtp_core::varint::{VarInt, first_varint};

/// Reads the number at the start of the bytes. Encodings longer than necessary are accepted.
///
/// Returns `OK` with the number in `value` and the length of its encoding in `consumed`. Returns
/// `MORE` if there are too few bytes; `consumed` is then 0, and `value` is unchanged.
#[unsafe(no_mangle)]
pub extern "C" fn wt_varint_read(bytes: &[u8], value: &mut u64, consumed: &mut usize) -> i32
    ensures answers { (result ≡ OK) ⊎ (result ≡ MORE) }
    ensures number { result ≡ OK
        → number_at bytes.now ≡ Some (value.new, drop consumed.new bytes.now) }
    ensures more { result ≡ MORE
        → (number_at bytes.now ≡ None) × (consumed.new ≡ 0) × (value.new ≡ value.old) }
    ensures within { consumed.new ≤ length bytes.now }
{
    match first_varint(bytes) {
        Some((number, size)) => {
            *value = number.into_inner();
            *consumed = size;
            OK
        }
        None => {
            *consumed = 0;
            MORE
        }
    }
}

/// Writes the shortest encoding of a number to the start of `out`.
///
/// Returns `OK` with the length of the encoding in `used`. Returns `BUFFER_TOO_SMALL` if `out` is
/// too short; `used` is then the length of the encoding, and `out` is unchanged. Returns `INVALID`
/// if the number is 2^62 or more; nothing is then changed.
#[unsafe(no_mangle)]
pub extern "C" fn wt_varint_write(value: u64, out: &mut [u8], used: &mut usize) -> i32
    ensures answers { (result ≡ OK) ⊎ ((result ≡ BUFFER_TOO_SMALL) ⊎ (result ≡ INVALID)) }
    ensures bytes { result ≡ OK
        → (value < 2 ^ 62) × WritesPrefix (shortest value) out.old out.new used.new }
    ensures room { result ≡ BUFFER_TOO_SMALL
        → (value < 2 ^ 62) × TooShort (shortest value) out.old out.new used.new }
    ensures invalid { result ≡ INVALID
        → (2 ^ 62 ≤ value) × (out.new ≡ out.old) × (used.new ≡ used.old) }
{
    let Ok(number) = VarInt::try_from_u64(value) else {
        return INVALID;
    };
    write_number(number, out, used)
}

/// Returns the length of the shortest encoding of a number in bytes: 1, 2, 4 or 8. Returns 0 if
/// the number is 2^62 or more.
#[unsafe(no_mangle)]
pub extern "C" fn wt_varint_size(value: u64) -> usize
    ensures size { value < 2 ^ 62 → result ≡ length (shortest value) }
    ensures none { 2 ^ 62 ≤ value → result ≡ 0 }
{
    match VarInt::try_from_u64(value) {
        Ok(number) => number.size(),
        Err(_) => 0,
    }
}

/// Returns the session ID with this number, or `None` if it is not a session ID.
pub(crate) fn session_of(number: u64) -> Option<SessionId>
    ensures { MatchOption result (¬ (IsSessionNumber number))
        (λ id. (id ≡ number) × IsSessionNumber number) }
{
    let Ok(varint) = VarInt::try_from_u64(number) else {
        return None;
    };
    SessionId::try_from_varint(varint).ok()
}
