//! Error codes (RFC 9114, section 8).
ghost use Rattle.std.specs.Prelude.{◌≡◌, ◌≢◌, ◌⊎◌, ◌<◌, ◌^◌, ℕ, List, Some};
ghost use Rattle.wtp_core.specs.ApplicationCodes.{http3_number};
ghost use Rattle.wtp_core.specs.Codes.{code_name, code_scope};
ghost use Rattle.wt_c.specs.Codes.{IsNoCode, scope_number};
ghost use Rattle.wt_c.specs.Output.{WritesPrefix, TooShort};

use crate::output::write_bytes;
use crate::status::{BUFFER_TOO_SMALL, INVALID, OK};
use wtp_core::error::{Code, ErrorScope, application_codes};
use wtp_core::varint::VarInt;

/// The error code closes one stream.
pub const STREAM: i32 = 0;

/// The error code closes the connection.
pub const CONNECTION: i32 = 1;

/// The error code closes a stream or the connection, depending on the rule that was violated.
pub const EITHER: i32 = 2;

/// Writes the registered name of an error code, such as `H3_FRAME_UNEXPECTED`, to the start of
/// `out`, in ASCII and without a terminating zero.
///
/// Returns `OK` with the length of the name in `used`. Returns `BUFFER_TOO_SMALL` if `out` is too
/// short; `used` is then the length of the name, and `out` is unchanged. Returns `INVALID` if the
/// error code is not registered; nothing is then changed. Unknown error codes are treated as
/// `H3_NO_ERROR` (RFC 9114, section 8).
#[unsafe(no_mangle)]
pub extern "C" fn wt_code_name(number: u64, out: &mut [u8], used: &mut usize) -> i32
    ensures answers { (result ≡ OK) ⊎ ((result ≡ BUFFER_TOO_SMALL) ⊎ (result ≡ INVALID)) }
    ensures name { result ≡ OK → (name : List ℕ) × (code_name number ≡ Some name)
        × WritesPrefix name out.old out.new used.new }
    ensures room { result ≡ BUFFER_TOO_SMALL → (name : List ℕ) × (code_name number ≡ Some name)
        × TooShort name out.old out.new used.new }
    ensures invalid { result ≡ INVALID → IsNoCode number
        × (out.new ≡ out.old) × (used.new ≡ used.old) }
{
    let Ok(varint) = VarInt::try_from_u64(number) else {
        return INVALID;
    };
    match Code::new(varint).name() {
        Some(name) => write_bytes(name.as_bytes(), out, used),
        None => INVALID,
    }
}

/// Returns the scope of an error code: `STREAM`, `CONNECTION` or `EITHER` (RFC 9114, section 8).
/// Returns `INVALID` if the error code is not registered.
#[unsafe(no_mangle)]
pub extern "C" fn wt_code_scope(number: u64) -> i32
    ensures answers { (result ≡ STREAM)
        ⊎ ((result ≡ CONNECTION) ⊎ ((result ≡ EITHER) ⊎ (result ≡ INVALID))) }
    ensures scope { result ≢ INVALID → (name : List ℕ) × (code_name number ≡ Some name)
        × (result ≡ scope_number (code_scope number)) }
    ensures invalid { result ≡ INVALID → IsNoCode number }
{
    let Ok(varint) = VarInt::try_from_u64(number) else {
        return INVALID;
    };
    let code = Code::new(varint);
    match code.name() {
        Some(_) => number_of_scope(code.scope()),
        None => INVALID,
    }
}

/// Returns the C number of an error code's scope.
fn number_of_scope(scope: ErrorScope) -> i32
    ensures { result ≡ scope_number scope }
{
    match scope {
        ErrorScope::Stream => STREAM,
        ErrorScope::Connection => CONNECTION,
        ErrorScope::Either => EITHER,
    }
}

/// Returns the HTTP/3 error code for an application error code that resets a WebTransport stream
/// (WebTransport over HTTP/3, "Resetting Data Streams").
#[unsafe(no_mangle)]
pub extern "C" fn wt_application_code_to_http3(code: u32) -> u64
    ensures { result ≡ http3_number code }
{
    application_codes::to_http3(code).into_inner()
}

/// Finds the application error code for an HTTP/3 error code.
///
/// Returns `OK` with the application error code in `code`. Returns `INVALID` if the HTTP/3 error
/// code does not represent one; `code` is then unchanged.
#[unsafe(no_mangle)]
pub extern "C" fn wt_application_code_from_http3(number: u64, code: &mut u32) -> i32
    ensures answers { (result ≡ OK) ⊎ (result ≡ INVALID) }
    ensures code { result ≡ OK → number ≡ http3_number code.new }
    ensures invalid { result ≡ INVALID → ((n : ℕ) → n < 2 ^ 32 → number ≢ http3_number n)
        × (code.new ≡ code.old) }
{
    let Ok(http3) = VarInt::try_from_u64(number) else {
        return INVALID;
    };
    match application_codes::from_http3(http3) {
        Ok(found) => {
            *code = found;
            OK
        }
        Err(_) => INVALID,
    }
}

// The numbers in c/include/wtransport.h.
const _: () = prove!(STREAM == 0);

const _: () = prove!(CONNECTION == 1);

const _: () = prove!(EITHER == 2);
