//! The first fault of a request, by number and by name (RFC 9114, section 4.3.1; RFC 9220, section
//! 3).
ghost use Rattle.std.specs.Prelude.{◌≡◌, ◌≢◌, ◌⊎◌, List, MatchOption};
ghost use Rattle.wtp_fields.specs.Field.{Field};
ghost use Rattle.wtp_fields.specs.FieldMessages.{request_fault};
ghost use Rattle.wtp_fields.specs.declared.session.HeadersParseError.{HeadersParseError};
ghost use Rattle.wt_c.specs.Fields.{AreLinesOf, HasSectionFault, HasStoredLine};
ghost use Rattle.wt_c.specs.Output.{WritesPrefix, TooShort};
ghost use Rattle.wt_c.specs.RequestFaults.{IsFaultNumber, IsRequestFault, first_number};
ghost use Rattle.wt_c.specs.RequestFaults.{fault_number, fault_name};

use crate::lists::read_fields;
use crate::output::write_bytes;
use crate::status::{BUFFER_TOO_SMALL, ERROR, INVALID, MEMORY, OK};
use std::alloc::Global;
use wtp_fields::fields::FieldList;
use wtp_fields::session::HeadersParseError;

/// The fields are those of a request.
pub const REQUEST_OK: i32 = 0;

/// There is no `:method`.
pub const MISSING_METHOD: i32 = 1;

/// `:method` is not `CONNECT`.
pub const METHOD_NOT_CONNECT: i32 = 2;

/// There is no `:scheme`.
pub const MISSING_SCHEME: i32 = 3;

/// `:scheme` is not `https`.
pub const SCHEME_NOT_HTTPS: i32 = 4;

/// There is no `:protocol`.
pub const MISSING_PROTOCOL: i32 = 5;

/// `:protocol` is not `webtransport`.
pub const PROTOCOL_NOT_WEBTRANSPORT: i32 = 6;

/// There is no `:authority`.
pub const MISSING_AUTHORITY: i32 = 7;

/// There is no `:path`.
pub const MISSING_PATH: i32 = 8;

/// Returns the number of a fault of a request. The others are no faults of a request.
fn number_of(fault: &HeadersParseError) -> i32
    requires { IsRequestFault fault.now }
    ensures { result ≡ fault_number fault.now }
{
    match fault {
        HeadersParseError::MissingMethod => MISSING_METHOD,
        HeadersParseError::MethodNotConnect => METHOD_NOT_CONNECT,
        HeadersParseError::MissingScheme => MISSING_SCHEME,
        HeadersParseError::SchemeNotHttps => SCHEME_NOT_HTTPS,
        HeadersParseError::MissingProtocol => MISSING_PROTOCOL,
        HeadersParseError::ProtocolNotWebTransport => PROTOCOL_NOT_WEBTRANSPORT,
        HeadersParseError::MissingAuthority => MISSING_AUTHORITY,
        HeadersParseError::MissingPath => MISSING_PATH,
        HeadersParseError::MissingStatusCode
        | HeadersParseError::InvalidStatusCode
        | HeadersParseError::Memory => unreachable!(),
    }
}

/// Returns the number of the first fault of a request's fields, or `REQUEST_OK` if there is none.
#[tactic(auto, using(crate::proofs::ListLemmas::request_faults))]
fn first_fault(fields: &FieldList) -> i32
    ensures { result ≡ first_number (request_fault fields.now) }
{
    match fields.session_request() {
        Ok(_) => REQUEST_OK,
        Err(fault) => number_of(&fault),
    }
}

/// Finds the first fault of the request in a field section, the payload of a HEADERS frame, in the
/// order of the numbers.
///
/// Returns `OK` with the number of the fault, or `REQUEST_OK` if the section is that of a request.
/// Returns `ERROR` with the code `QPACK_DECOMPRESSION_FAILED` (0x200) for a section with a fault,
/// and `MEMORY` if allocation failed. Then `fault` does not change.
#[unsafe(no_mangle)]
pub extern "C" fn wt_request_check(
    alloc: Global,
    section: &[u8],
    fault: &mut i32,
    code: &mut u64,
) -> i32
    ensures answers { (result ≡ OK) ⊎ ((result ≡ ERROR) ⊎ (result ≡ MEMORY)) }
    ensures fields { result ≡ OK → (m : List Field) × AreLinesOf section.now m
        × (fault.new ≡ first_number (request_fault m)) }
    ensures section { result ≡ ERROR → HasSectionFault section.now × (code.new ≡ 0x200) }
    ensures memory { result ≡ MEMORY → HasStoredLine section.now }
    ensures none { result ≢ OK → fault.new ≡ fault.old }
    ensures code { result ≢ ERROR → code.new ≡ code.old }
{
    match read_fields(alloc, section) {
        Ok(fields) => {
            *fault = first_fault(&fields);
            OK
        }
        Err(reason) => reason.answer(code),
    }
}

/// Returns the fault of a request that has this number.
fn fault_of_number(number: i32) -> Option<HeadersParseError>
    ensures { MatchOption result ((fault : HeadersParseError) → ¬ (IsFaultNumber number fault))
        (λ fault. IsFaultNumber number fault) }
{
    match number {
        MISSING_METHOD => Some(HeadersParseError::MissingMethod),
        METHOD_NOT_CONNECT => Some(HeadersParseError::MethodNotConnect),
        MISSING_SCHEME => Some(HeadersParseError::MissingScheme),
        SCHEME_NOT_HTTPS => Some(HeadersParseError::SchemeNotHttps),
        MISSING_PROTOCOL => Some(HeadersParseError::MissingProtocol),
        PROTOCOL_NOT_WEBTRANSPORT => Some(HeadersParseError::ProtocolNotWebTransport),
        MISSING_AUTHORITY => Some(HeadersParseError::MissingAuthority),
        MISSING_PATH => Some(HeadersParseError::MissingPath),
        _ => None,
    }
}

/// Returns the name of a fault of a request.
fn name_of(fault: &HeadersParseError) -> &'static str
    requires { IsRequestFault fault.now }
    ensures { result.now ≡ fault_name fault.now }
{
    match fault {
        HeadersParseError::MissingMethod => "MissingMethod",
        HeadersParseError::MethodNotConnect => "MethodNotConnect",
        HeadersParseError::MissingScheme => "MissingScheme",
        HeadersParseError::SchemeNotHttps => "SchemeNotHttps",
        HeadersParseError::MissingProtocol => "MissingProtocol",
        HeadersParseError::ProtocolNotWebTransport => "ProtocolNotWebTransport",
        HeadersParseError::MissingAuthority => "MissingAuthority",
        HeadersParseError::MissingPath => "MissingPath",
        HeadersParseError::MissingStatusCode
        | HeadersParseError::InvalidStatusCode
        | HeadersParseError::Memory => unreachable!(),
    }
}

/// Writes the name of a request's fault to the start of `out`, in ASCII and without a final zero:
/// `MissingMethod` and its like.
///
/// Returns `OK` with the size of the name in `used`. Returns `BUFFER_TOO_SMALL` if `out` is shorter
/// than that size, which `used` then is; `out` does not change. Returns `INVALID` if no fault has
/// this number; then nothing changes.
#[unsafe(no_mangle)]
pub extern "C" fn wt_request_fault_name(fault: i32, out: &mut [u8], used: &mut usize) -> i32
    ensures answers { (result ≡ OK) ⊎ ((result ≡ BUFFER_TOO_SMALL) ⊎ (result ≡ INVALID)) }
    ensures name { result ≡ OK → (e : HeadersParseError) × IsFaultNumber fault e
        × WritesPrefix (fault_name e) out.old out.new used.new }
    ensures room { result ≡ BUFFER_TOO_SMALL → (e : HeadersParseError) × IsFaultNumber fault e
        × TooShort (fault_name e) out.old out.new used.new }
    ensures invalid { result ≡ INVALID → ((e : HeadersParseError) → ¬ (IsFaultNumber fault e))
        × (out.new ≡ out.old) × (used.new ≡ used.old) }
{
    match fault_of_number(fault) {
        Some(found) => write_bytes(name_of(&found).as_bytes(), out, used),
        None => INVALID,
    }
}

// The numbers in c/include/wtransport.h.
const _: () = prove!(REQUEST_OK == 0);

const _: () = prove!(MISSING_METHOD == 1);

const _: () = prove!(METHOD_NOT_CONNECT == 2);

const _: () = prove!(MISSING_SCHEME == 3);

const _: () = prove!(SCHEME_NOT_HTTPS == 4);

const _: () = prove!(MISSING_PROTOCOL == 5);

const _: () = prove!(PROTOCOL_NOT_WEBTRANSPORT == 6);

const _: () = prove!(MISSING_AUTHORITY == 7);

const _: () = prove!(MISSING_PATH == 8);
