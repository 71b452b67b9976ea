//! Laws of error codes and their numbers.
ghost use Rattle.std.specs.Prelude.{◌≡◌, ℕ, ◌-◌, ◌<◌, ◌≤◌, ◌^◌, Ok, IsTrue, ◌↔◌};
ghost use Rattle.wtp_core.specs.declared.error.ErrorCode.{ErrorCode};
ghost use Rattle.wtp_core.specs.ErrorCodes.{code_number};
ghost use Rattle.wtp_core.specs.ErrorScope.{scope_of};
ghost use Rattle.wtp_core.specs.Codes.{code_scope};
ghost use Rattle.wtp_core.specs.Numbers.{IsReserved};
ghost use Rattle.wtp_core.specs.ApplicationCodes.{http3_number};

use crate::error::application_codes::{NotAnApplicationCode, from_http3, to_http3};
use crate::error::{Code, ErrorCode, ErrorScope, UnknownErrorCode};
use crate::varint::VarInt;

/// Distinct error codes have distinct numbers, and no number is reserved (RFC 9114, section 8.1).
pub fn codes_have_numbers()
    ensures one { (x y : ErrorCode) → code_number x ≡ code_number y → x ≡ y }
    ensures not_reserved { (x : ErrorCode) → ¬ IsReserved (code_number x) }
{}

/// Converting an error code to its number and back returns the code.
pub fn code_and_back(code: ErrorCode) -> Result<ErrorCode, UnknownErrorCode>
    ensures { result ≡ Ok code }
{
    ErrorCode::try_from(code.to_code())
}

/// An error code and its number have the same scope.
pub fn scopes_agree()
    ensures { (x : ErrorCode) → code_scope (code_number x) ≡ scope_of x }
{}

/// Converting an error code to a [`Code`] preserves its number and its scope.
pub fn code_of_error(error: ErrorCode) -> (VarInt, ErrorScope)
    ensures number { result.0 ≡ code_number error }
    ensures scope { result.1 ≡ scope_of error }
{
    let code = Code::from(error);
    (code.number(), code.scope())
}

/// The HTTP/3 error codes of application error codes, which have 32 bits, are exactly the
/// unreserved ones from the first to the last. Distinct application error codes have distinct
/// HTTP/3 error codes.
pub fn application_codes()
    ensures range { (n : ℕ) → n < 2 ^ 32
        → (http3_number 0 ≤ http3_number n) × (http3_number n ≤ http3_number (2 ^ 32 - 1)) }
    ensures not_reserved { (n : ℕ) → ¬ IsReserved (http3_number n) }
    ensures every { (h : ℕ) → http3_number 0 ≤ h → h ≤ http3_number (2 ^ 32 - 1)
        → ¬ IsReserved h
        → (n : ℕ) × (n < 2 ^ 32) × (h ≡ http3_number n) }
    ensures one { (m n : ℕ) → http3_number m ≡ http3_number n → m ≡ n }
{}

/// Converting an application error code to an HTTP/3 error code and back returns the application
/// error code.
pub fn application_and_back(code: u32) -> Result<u32, NotAnApplicationCode>
    ensures { result ≡ Ok code }
{
    from_http3(to_http3(code))
}

/// Codes are equal exactly if their numbers are.
pub fn codes_compare(a: Code, b: Code) -> bool
    ensures { IsTrue result ↔ (a ≡ b) }
{
    a == b
}
