//! Conversion between the error codes with which applications reset WebTransport streams and HTTP/3
//! error codes (WebTransport over HTTP/3, "Resetting Data Streams").

ghost use Rattle.std.specs.Prelude.{◌≡◌, ◌≢◌, ℕ, ◌<◌, ◌^◌, MatchResult};
ghost use Rattle.wtp_core.specs.ApplicationCodes.{http3_number};

use crate::numbers::is_reserved;
use crate::varint::VarInt;

/// The HTTP/3 error code of application error code 0.
pub const FIRST: VarInt = VarInt {
    value: 0x52e4_a40f_a8db,
};

/// The HTTP/3 error code of application error code 2^32 - 1.
pub const LAST: VarInt = VarInt {
    value: 0x52e5_ac98_3162,
};

/// The HTTP/3 error code does not encode an application error code: it is outside the range from
/// [`FIRST`] to [`LAST`], or it is reserved (RFC 9114, section 8.1).
#[derive(Debug, Drop, PartialEq, Eq, thiserror::Error)]
#[error("not an application error code")]
pub struct NotAnApplicationCode;

/// Converts an application error code to its HTTP/3 error code, which is never reserved.
pub fn to_http3(code: u32) -> VarInt
    ensures { result ≡ http3_number code }
{
    let code = u64::from(code);
    VarInt {
        value: FIRST.value + code + code / 0x1e,
    }
}

/// Converts an HTTP/3 error code to the application error code, the inverse of [`to_http3`].
///
/// Returns an error if no application error code has this HTTP/3 error code.
pub fn from_http3(number: VarInt) -> Result<u32, NotAnApplicationCode>
    ensures { MatchResult result (λ code. number ≡ http3_number code)
        (λ _. (code : ℕ) → code < 2 ^ 32 → number ≢ http3_number code) }
{
    let value = number.value;
    if value < FIRST.value || LAST.value < value || is_reserved(number) {
        return Err(NotAnApplicationCode);
    }
    let shifted = value - FIRST.value;
    Ok((shifted - shifted / 0x1f) as u32)
}

// The bounds (WebTransport over HTTP/3, "Resetting Data Streams").
const _: () = prove!(FIRST.value == 0x52e4_a40f_a8db);

const _: () = prove!(LAST.value == 0x52e5_ac98_3162);
