//! Requests for sessions, and responses (RFC 9220, section 3; WebTransport over HTTP/3).
ghost use Rattle.std.specs.Prelude.{◌≡◌, ◌≢◌, ◌⊎◌, ◌++◌, ℕ, List, length, None, Ok, IsUtf8};
ghost use Rattle.std.specs.Prelude.{OnOk, IfOk, IfErr, MatchBool, MatchOption};
ghost use Rattle.url.specs.Parser.{parse_url};
ghost use Rattle.wtp_core.specs.Ids.{IsStatus};
ghost use Rattle.wtp_fields.specs.Field.{Field};
ghost use Rattle.wtp_fields.specs.FieldMessages.{status_of};
ghost use Rattle.wtp_fields.specs.FieldWriting.{list_at};
ghost use Rattle.wtp_fields.specs.SessionResponse.{status_alone};
ghost use Rattle.wt_c.specs.Fields.{field_in, AreLinesOf, HasStoredLine};
ghost use Rattle.wt_c.specs.Output.{WritesPrefix, TooShort};
ghost use Rattle.wt_c.specs.Sessions.{IsNoUrl, IsMessageField, AreMessageFields, message_frame};
ghost use Rattle.wt_c.specs.Sessions.{IsRequestOf, HasRequestFault, HasResponseFault};
ghost use Rattle.wt_c.specs.Texts.{lines_in};

use crate::fields::WtField;
use crate::frames::write_frame;
use crate::lists::read_fields;
use crate::output::write_parts;
use crate::status::{BUFFER_TOO_SMALL, ERROR, INVALID, MEMORY, OK};
use crate::texts::{Rejection, parts_of};
use std::alloc::{AllocError, Global};
use wtp_core::error::ErrorCode;
use wtp_core::ids::StatusCode;
use wtp_fields::fields::{FieldList, check_field};
use wtp_fields::session::UrlParseError;

/// Returns the name and the value of a field, if a message can have it.
fn message_field<'a>(field: &WtField, texts: &'a [u8]) -> Option<(&'a [u8], &'a [u8])>
    ensures { MatchOption result (¬ (IsMessageField texts.now field.now))
        (λ f. IsMessageField texts.now field.now
        × ((f.0.now, f.1.now) ≡ field_in texts.now field.now)) }
{
    let (name, value) = parts_of(field, texts)?;
    match check_field(name, value) {
        Ok(()) => Some((name, value)),
        Err(_) => None,
    }
}

/// Returns whether a message can have each of the fields.
fn are_message_fields(fields: &[WtField], texts: &[u8]) -> bool
    ensures { MatchBool result (AreMessageFields texts.now fields.now)
        (¬ (AreMessageFields texts.now fields.now)) }
{
    for field in fields {
        if message_field(field, texts).is_none() {
            return false;
        }
    }
    true
}

/// Appends fields to the list of a message, which can have each of them.
fn push_fields(list: &mut FieldList, fields: &[WtField], texts: &[u8]) -> Result<(), AllocError>
    requires { AreMessageFields texts.now fields.now }
    ensures { OnOk result (list.new ≡ list.old ++ lines_in texts.now fields.now) }
{
    for field in fields {
        let Some((name, value)) = message_field(field, texts) else {
            unreachable!();
        };
        if list.push(name, value).is_err() {
            return Err(AllocError);
        }
    }
    Ok(())
}

/// Writes the HEADERS frame of a list with these fields after it to the start of `out`, as
/// `write_frame` does. Returns `MEMORY` if allocation failed; then nothing changes.
fn write_message(
    alloc: Global,
    mut list: FieldList,
    fields: &[WtField],
    texts: &[u8],
    out: &mut [u8],
    used: &mut usize,
) -> i32
    requires { AreMessageFields texts.now fields.now }
    ensures answers { (result ≡ OK) ⊎ ((result ≡ BUFFER_TOO_SMALL) ⊎ (result ≡ MEMORY)) }
    ensures frame { result ≡ OK
        → WritesPrefix (message_frame list texts.now fields.now) out.old out.new used.new }
    ensures room { result ≡ BUFFER_TOO_SMALL
        → TooShort (message_frame list texts.now fields.now) out.old out.new used.new }
    ensures memory { result ≡ MEMORY → (out.new ≡ out.old) × (used.new ≡ used.old) }
{
    if push_fields(&mut list, fields, texts).is_err() {
        return MEMORY;
    }
    match list.generate_frame(alloc) {
        Ok(frame) => write_frame(&frame, out, used),
        Err(_) => MEMORY,
    }
}

/// Returns the fields of the request for the session at a URL.
fn request_for(alloc: Global, url: &[u8]) -> Result<FieldList, Rejection>
    ensures ok { IfOk result (λ list. list_at (parse_url None url.now) ≡ Ok list) }
    ensures invalid { IfErr result (λ e. e ≡ Rejection.Invalid → IsNoUrl url.now) }
    ensures memory { IfErr result (λ e. e ≡ Rejection.Memory → IsUtf8 url.now) }
    ensures utf8 { OnOk result (IsUtf8 url.now) }
{
    let Ok(text) = str::from_utf8(url) else {
        return Err(Rejection::Invalid);
    };
    match FieldList::request(alloc, text) {
        Ok(list) => Ok(list),
        Err(UrlParseError::Memory) => Err(Rejection::Memory),
        Err(_) => Err(Rejection::Invalid),
    }
}

/// Writes the HEADERS frame of the request for the session at a URL to the start of `out` (RFC
/// 9114, section 4.3.1): the pseudo-header fields, and then these fields in their order, with
/// repeated names.
///
/// Returns `OK` with the size of the frame in `used`. Returns `BUFFER_TOO_SMALL` if `out` is
/// shorter than that size, which `used` then is; `out` does not change. Returns `INVALID` if the
/// URL is not one or its scheme is not `https`, and perhaps for one of 2^24 bytes or more; or if a
/// field is not within `texts`, its name is empty, starts with a colon, has an upper-case letter or
/// is no token, or its value has a control character other than a tab, or starts or ends with a
/// space or a tab. Returns `MEMORY` if allocation failed, which does not hide a fault of a field,
/// or a URL that is not UTF-8. Then nothing changes.
#[unsafe(no_mangle)]
pub extern "C" fn wt_request_write(
    alloc: Global,
    url: &[u8],
    fields: &[WtField],
    texts: &[u8],
    out: &mut [u8],
    used: &mut usize,
) -> i32
    ensures answers { (result ≡ OK) ⊎ ((result ≡ BUFFER_TOO_SMALL) ⊎ ((result ≡ INVALID) ⊎ (result ≡ MEMORY))) }
    ensures frame { result ≡ OK → (m : List Field) × (list_at (parse_url None url.now) ≡ Ok m)
        × AreMessageFields texts.now fields.now
        × WritesPrefix (message_frame m texts.now fields.now) out.old out.new used.new }
    ensures room { result ≡ BUFFER_TOO_SMALL → (m : List Field) × (list_at (parse_url None url.now) ≡ Ok m)
        × AreMessageFields texts.now fields.now
        × TooShort (message_frame m texts.now fields.now) out.old out.new used.new }
    ensures invalid { result ≡ INVALID
        → (IsNoUrl url.now ⊎ ¬ (AreMessageFields texts.now fields.now))
        × (out.new ≡ out.old) × (used.new ≡ used.old) }
    ensures valid { result ≢ INVALID → IsUtf8 url.now }
    ensures memory { result ≡ MEMORY → IsUtf8 url.now × AreMessageFields texts.now fields.now
        × (out.new ≡ out.old) × (used.new ≡ used.old) }
{
    if !are_message_fields(fields, texts) {
        return INVALID;
    }
    match request_for(alloc, url) {
        Ok(list) => write_message(alloc, list, fields, texts, out, used),
        Err(reason) => reason.answer(),
    }
}

/// Writes the HEADERS frame of the response with a status to the start of `out` (RFC 9114, section
/// 4.3.2): `:status`, and then these fields in their order, with repeated names.
///
/// Returns `OK` with the size of the frame in `used`. Returns `BUFFER_TOO_SMALL` if `out` is
/// shorter than that size, which `used` then is; `out` does not change. Returns `INVALID` if the
/// status is not from 100 to 599, or for a field that `wt_request_write` rejects. Otherwise returns
/// `MEMORY` if allocation failed. Then nothing changes.
#[unsafe(no_mangle)]
pub extern "C" fn wt_response_write(
    alloc: Global,
    status: u32,
    fields: &[WtField],
    texts: &[u8],
    out: &mut [u8],
    used: &mut usize,
) -> i32
    ensures answers { (result ≡ OK) ⊎ ((result ≡ BUFFER_TOO_SMALL) ⊎ ((result ≡ INVALID) ⊎ (result ≡ MEMORY))) }
    ensures frame { result ≡ OK → IsStatus status × AreMessageFields texts.now fields.now
        × WritesPrefix (message_frame (status_alone status) texts.now fields.now)
        out.old out.new used.new }
    ensures room { result ≡ BUFFER_TOO_SMALL → IsStatus status × AreMessageFields texts.now fields.now
        × TooShort (message_frame (status_alone status) texts.now fields.now)
        out.old out.new used.new }
    ensures invalid { result ≡ INVALID
        → ((¬ (IsStatus status)) ⊎ ¬ (AreMessageFields texts.now fields.now))
        × (out.new ≡ out.old) × (used.new ≡ used.old) }
    ensures memory { result ≡ MEMORY → IsStatus status × AreMessageFields texts.now fields.now
        × (out.new ≡ out.old) × (used.new ≡ used.old) }
{
    let Ok(status_code) = StatusCode::try_from_u32(status) else {
        return INVALID;
    };
    if !are_message_fields(fields, texts) {
        return INVALID;
    }
    match FieldList::response(alloc, status_code) {
        Ok(list) => write_message(alloc, list, fields, texts, out, used),
        Err(_) => MEMORY,
    }
}

/// Reads the request in a field section, the payload of a HEADERS frame (RFC 9114, section 4.3.1;
/// RFC 9220, section 3), and writes its authority and then its path to the start of `out`. Neither
/// these nor the other fields need be UTF-8.
///
/// Returns `OK` with the size of both in `used`, and that of the authority in `authority`. Returns
/// `BUFFER_TOO_SMALL` if `out` is shorter than both, whose sizes are reported all the same; `out`
/// does not change. Returns `ERROR` with the code `QPACK_DECOMPRESSION_FAILED` (0x200) for a
/// section with a fault, or `H3_MESSAGE_ERROR` (0x10e) for one that is not a request. Returns
/// `MEMORY` if allocation failed. Then nothing else changes.
#[unsafe(no_mangle)]
pub extern "C" fn wt_request_read(
    alloc: Global,
    section: &[u8],
    out: &mut [u8],
    authority: &mut usize,
    used: &mut usize,
    code: &mut u64,
) -> i32
    ensures answers { (result ≡ OK)
        ⊎ ((result ≡ BUFFER_TOO_SMALL) ⊎ ((result ≡ ERROR) ⊎ (result ≡ MEMORY))) }
    ensures request { result ≡ OK → (m : List Field) × (host : List ℕ) × (path : List ℕ)
        × IsRequestOf section.now m host path × (authority.new ≡ length host)
        × WritesPrefix (host ++ path) out.old out.new used.new }
    ensures room { result ≡ BUFFER_TOO_SMALL → (m : List Field) × (host : List ℕ) × (path : List ℕ)
        × IsRequestOf section.now m host path × (authority.new ≡ length host)
        × TooShort (host ++ path) out.old out.new used.new }
    ensures fault { result ≡ ERROR → HasRequestFault section.now code.new
        × (out.new ≡ out.old) × (authority.new ≡ authority.old) × (used.new ≡ used.old) }
    ensures memory { result ≡ MEMORY → HasStoredLine section.now
        × (out.new ≡ out.old) × (authority.new ≡ authority.old) × (used.new ≡ used.old) }
    ensures code { result ≢ ERROR → code.new ≡ code.old }
{
    let fields = match read_fields(alloc, section) {
        Ok(fields) => fields,
        Err(reason) => return reason.answer(code),
    };
    match fields.session_request() {
        Ok(target) => {
            *authority = target.authority.len();
            write_parts(target.authority, target.path, out, used)
        }
        Err(_) => {
            *code = ErrorCode::Message.to_code().into_inner();
            ERROR
        }
    }
}

/// Reads the response in a field section, the payload of a HEADERS frame (RFC 9114, section 4.3.2).
/// No field need be UTF-8.
///
/// Returns `OK` with its status. Returns `ERROR` with the code `QPACK_DECOMPRESSION_FAILED` (0x200)
/// for a section with a fault, or `H3_MESSAGE_ERROR` (0x10e) for one without a status of three
/// digits from 100 to 599. Returns `MEMORY` if allocation failed. Then `status` does not change.
#[unsafe(no_mangle)]
pub extern "C" fn wt_response_read(
    alloc: Global,
    section: &[u8],
    status: &mut u16,
    code: &mut u64,
) -> i32
    ensures answers { (result ≡ OK) ⊎ ((result ≡ ERROR) ⊎ (result ≡ MEMORY)) }
    ensures status { result ≡ OK → (m : List Field) × AreLinesOf section.now m
        × (status_of m ≡ Ok status.new) }
    ensures fault { result ≡ ERROR → HasResponseFault section.now code.new }
    ensures memory { result ≡ MEMORY → HasStoredLine section.now }
    ensures none { result ≢ OK → status.new ≡ status.old }
    ensures code { result ≢ ERROR → code.new ≡ code.old }
{
    let fields = match read_fields(alloc, section) {
        Ok(fields) => fields,
        Err(reason) => return reason.answer(code),
    };
    match fields.status() {
        Ok(found) => {
            *status = found.into_inner();
            OK
        }
        Err(_) => {
            *code = ErrorCode::Message.to_code().into_inner();
            ERROR
        }
    }
}
