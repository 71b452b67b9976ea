//! Field lists of messages to send, and their HEADERS frames (RFC 9114, sections 4.1.2, 4.2, 4.3
//! and 7.2.2).
ghost use Rattle.std.specs.Prelude.{◌≡◌, ◌≢◌, ◌⊎◌, ◌&&◌, ◌++◌, ◌==◌, ◌≤◌, ◌^◌, List, [], ◌∷◌, length};
ghost use Rattle.std.specs.Prelude.{Some, None, Ok, Err, true};
ghost use Rattle.std.specs.Prelude.{MatchResult, OnOk, OnErr, IfOk, codes, map, not};
ghost use Rattle.std.specs.List.{list_all, list_any};
ghost use Rattle.std.specs.Option.{option_copied};
ghost use Rattle.url.specs.Parser.{parse_url};
ghost use Rattle.wtp_wire.specs.Content.{HeadersOf};
ghost use Rattle.wtp_qpack.specs.Field.{IsOctets, AreOctets};
ghost use Rattle.wtp_qpack.specs.FieldSection.{shortest_section};
ghost use Rattle.wtp_fields.specs.SessionResponse.{status_alone};
ghost use Rattle.wtp_fields.specs.FieldWriting.{is_upper, is_tchar, is_value_byte, is_blank_at};
ghost use Rattle.wtp_fields.specs.FieldWriting.{is_field_value, name_fault, push_fault, fault_in};
ghost use Rattle.wtp_fields.specs.FieldWriting.{request_fields, list_at};
ghost use Rattle.wtp_fields.specs.declared.session.request.UrlParseError.TheVariants as answered;

use super::FieldList;
use crate::session::{SessionRequest, UrlParseError};
use std::alloc::{AllocError, Global};
use std::borrow::CowSlice;
use thiserror::Error;
use wtp_core::ids::StatusCode;
use wtp_core::varint::VarInt;
use wtp_qpack::section;
use wtp_wire::frame::{Frame, FrameOwned, GenerateError};

/// The reason why a field was not appended.
#[derive(Debug, Drop, Clone, Copy, PartialEq, Eq, Error)]
pub enum PushError {
    /// The name is empty.
    #[error("the name is empty")]
    EmptyName,
    /// The name starts with a colon, as those of pseudo-header fields do (RFC 9114, section 4.3).
    #[error("the name is that of a pseudo-header field")]
    PseudoHeader,
    /// The name has an upper-case letter (RFC 9114, section 4.2).
    #[error("the name has an upper-case letter")]
    UpperCase,
    /// The name is not a token: it has a character that is not allowed in tokens (RFC 9110, section
    /// 5.6.2).
    #[error("the name is no token")]
    NotAToken,
    /// The value has a control character other than a tab, such as CR, LF or NUL, or it starts or
    /// ends with a space or a tab (RFC 9110, section 5.5; RFC 9114, section 10.3).
    #[error("the value has a forbidden character")]
    ForbiddenValue,
    /// Memory allocation failed.
    #[error("no memory")]
    Memory,
}

impl From<AllocError> for PushError {
    ghost use Rattle.std.specs.Prelude.{◌≡◌};
    ghost use Rattle.wtp_fields.specs.declared.fields.writing.PushError.TheVariants.{Memory};

    ghost from_gives = { λ _ e. e ≡ Memory };

    fn from(_e: AllocError) -> PushError {
        PushError::Memory
    }
}

impl FieldList {
    /// Creates the list of a request for a session at a URL with the scheme `https` (RFC 9220,
    /// section 3; RFC 9114, section 4.3.1): `:method`, `:scheme`, `:protocol`, `:authority` and
    /// `:path`, with the same values as in [`SessionRequest::new`].
    ///
    /// Returns the errors of [`SessionRequest::new`].
    pub fn request(alloc: Global, url: &str) -> Result<Self, UrlParseError>
        ensures request { MatchResult result
            (λ list. list_at (parse_url None url.now) ≡ Ok list)
            (λ e. (list_at (parse_url None url.now) ≡ Err e)
            ⊎ ((e ≡ answered.Memory) ⊎ (e ≡ answered.Overflow))) }
        ensures overflow { result ≡ Err answered.Overflow → 2 ^ 24 ≤ length url.now }
    {
        let request = SessionRequest::new(alloc, url)?;
        let authority = request.authority().as_bytes();
        let path = request.path().as_bytes();
        let list = of_target(alloc, authority, path)?;
        Ok(list)
    }

    /// Creates the list of a response: only `:status`, with three digits (RFC 9114, section 4.3.2).
    ///
    /// Returns [`AllocError`] if allocation fails.
    pub fn response(alloc: Global, status_code: StatusCode) -> Result<Self, AllocError>
        ensures { IfOk result (λ list. list ≡ status_alone status_code) }
    {
        let code = status_code.into_inner();
        let text = format!(in alloc; "{code}")?;
        let mut list = FieldList::empty(alloc);
        list.append(b":status", text.as_bytes())?;
        Ok(list)
    }

    /// Creates the list of these fields, in their order: names and values, taken as they are. Those of a
    /// request or a response have the pseudo-header fields first (RFC 9114, section 4.3). Whether a
    /// message may have these fields is checked where it is sent, by `wtp_sending`.
    ///
    /// The texts of one array have one lifetime, or the prover does not cover the caller: add a field
    /// whose text has another by [`append`](Self::append).
    ///
    /// Returns [`AllocError`] if allocation fails.
    #[tactic(auto, using(std::proofs::lemmas::List::map_more))]
    pub fn from_fields(alloc: Global, fields: &[(&[u8], &[u8])]) -> Result<Self, AllocError>
        ensures { IfOk result (λ list. list ≡ map (λ field. (field.0.now, field.1.now)) fields.now) }
    {
        let mut list = FieldList::empty(alloc);
        for (name, value) in fields {
            list.append(name, value)?;
        }
        Ok(list)
    }

    /// Appends a field. Its name may be that of an earlier field.
    ///
    /// Rejects a name that is empty, starts with a colon, has an upper-case letter or is not a
    /// token, and a value that has a control character other than a tab, or starts or ends with a
    /// space or a tab. Returns the first of these errors in the order of [`PushError`], before
    /// allocating anything. On an error, the list is unchanged.
    pub fn push(&mut self, name: &[u8], value: &[u8]) -> Result<(), PushError>
        ensures ok { OnOk result (self.new ≡ self.old ++ (name.now, value.now) ∷ []) }
        ensures fault { MatchResult result (λ _. push_fault name.now value.now ≡ None)
            (λ e. push_fault name.now value.now ≡ fault_in e) }
        ensures err { OnErr result (self.new ≡ self.old) }
    {
        check_field(name, value)?;
        self.append(name, value)?;
        Ok(())
    }

    /// Encodes the list as a field section, with its fields in order, using only the static table
    /// (RFC 9204, section 4.5). No section without the dynamic table has these fields in fewer bytes: a
    /// line is the index of the static entry with its name and value, or else a literal. Literals of
    /// [sensitive fields](wtp_qpack::sensitive::is_sensitive) have the bit N. A list from [`FieldList::request`] or [`FieldList::response`] has
    /// its pseudo-header fields first, as RFC 9114, section 4.3 requires. A decoded list is written
    /// with its fields as received, whatever they are.
    ///
    /// Returns [`AllocError`] if allocation fails.
    pub fn encode(&self, alloc: Global) -> Result<Vec<u8>, AllocError>
        ensures section { IfOk result (λ section. section.items ≡ shortest_section self.now) }
        // The section is therefore decoded to this list.
        ensures octets { IfOk result (λ _. AreOctets self.now) }
    {
        let mut out = section::empty_prefix(alloc)?;
        let mut fields = self.iter();
        while let Some(field) = fields.next() {
            let name = octets(field.name);
            let value = octets(field.value);
            section::write_shortest_line(&mut out, name, value)?;
        }
        Ok(out)
    }

    /// Creates the HEADERS frame of the list (RFC 9114, section 7.2.2). Its payload is the field
    /// section that `encode` returns.
    ///
    /// Returns [`GenerateError::Memory`] if allocation fails, and [`GenerateError::PayloadTooLong`]
    /// if the payload has 2^62 bytes or more.
    pub fn generate_frame(&self, alloc: Global) -> Result<FrameOwned, GenerateError>
        ensures frame { IfOk result (λ frame. frame ≡ HeadersOf (shortest_section self.now)) }
        ensures too_long { result ≡ Err GenerateError.PayloadTooLong
            → 2 ^ 62 ≤ length (shortest_section self.now) }
    {
        let Ok(payload) = self.encode(alloc) else {
            return Err(GenerateError::Memory);
        };
        if payload.len() as u64 > VarInt::MAX.into_inner() {
            return Err(GenerateError::PayloadTooLong);
        }
        Ok(Frame::new_headers(CowSlice::Owned(payload)))
    }
}

/// Creates the list of the five fields of a request.
fn of_target(alloc: Global, authority: &[u8], path: &[u8]) -> Result<FieldList, AllocError>
    ensures { IfOk result (λ list. list ≡ request_fields authority.now path.now) }
{
    let mut list = FieldList::empty(alloc);
    list.append(b":method", b"CONNECT")?;
    list.append(b":scheme", b"https")?;
    list.append(b":protocol", b"webtransport")?;
    list.append(b":authority", authority)?;
    list.append(b":path", path)?;
    Ok(list)
}

/// Returns its argument; the contract states that each byte is below 256.
fn octets(bytes: &[u8]) -> &[u8]
    ensures same { result.now ≡ bytes.now }
    ensures octets { IsOctets bytes.now }
{
    bytes
}

/// Checks a field as [`FieldList::push`] does, and returns the first error. Does not allocate.
#[tactic(auto, unfolding(crate::specs::FieldWriting::push_fault))]
pub fn check_field(name: &[u8], value: &[u8]) -> Result<(), PushError>
    ensures { MatchResult result (λ _. push_fault name.now value.now ≡ None)
        (λ e. (push_fault name.now value.now ≡ Some e) × (e ≢ PushError.Memory)) }
{
    check_name(name)?;
    if is_field_value(value) {
        Ok(())
    } else {
        Err(PushError::ForbiddenValue)
    }
}

/// Checks a name, and returns the first error.
fn check_name(name: &[u8]) -> Result<(), PushError>
    ensures { MatchResult result (λ _. name_fault name.now ≡ None)
        (λ e. (name_fault name.now ≡ Some e) × (e ≢ PushError.Memory)) }
{
    match name.first() {
        None => Err(PushError::EmptyName),
        Some(b':') => Err(PushError::PseudoHeader),
        Some(_) if has_upper(name) => Err(PushError::UpperCase),
        Some(_) if is_token(name) => Ok(()),
        Some(_) => Err(PushError::NotAToken),
    }
}

/// Returns whether a name has an upper-case letter.
fn has_upper(name: &[u8]) -> bool
    ensures { result ≡ list_any is_upper name.now }
{
    for byte in name {
        if byte.is_ascii_uppercase() {
            return true;
        }
    }
    false
}

/// Returns whether all bytes are allowed in tokens (RFC 9110, section 5.6.2). A token has at least
/// one byte, which is not checked.
pub fn is_token(name: &[u8]) -> bool
    ensures { result ≡ list_all is_tchar name.now }
{
    for byte in name {
        if !is_tchar(*byte) {
            return false;
        }
    }
    true
}

/// Returns whether all bytes are allowed in tokens and none is an upper-case letter, as in the names
/// of fields (RFC 9114, section 4.2). Such a name has at least one byte, which is not checked.
pub fn is_lower_token(name: &[u8]) -> bool
    ensures { result ≡ (list_all is_tchar name.now && not (list_any is_upper name.now)) }
{
    for byte in name {
        if !is_name_byte(*byte) {
            return false;
        }
    }
    true
}

/// Returns whether a byte is allowed in tokens and is no upper-case letter.
fn is_name_byte(byte: u8) -> bool
    ensures { result ≡ (is_tchar byte && not (is_upper byte)) }
{
    byte.is_ascii_lowercase() || (is_tchar(byte) && !byte.is_ascii_uppercase())
}

/// Returns whether a byte is allowed in tokens (RFC 9110, section 5.6.2).
fn is_tchar(byte: u8) -> bool
    ensures { result ≡ is_tchar byte }
{
    byte.is_ascii_alphanumeric() || byte == b'-' || is_mark(byte)
}

/// Returns whether a byte is one of the token characters other than letters and digits.
fn is_mark(byte: u8) -> bool
    ensures { result ≡ list_any (λ mark. mark == byte) (codes "!#$%&'*+-.^_`|~") }
{
    b"!#$%&'*+-.^_`|~".contains(&byte)
}

/// Returns whether the bytes are a valid field value (RFC 9110, section 5.5): no control characters
/// other than tabs, and no space or tab at either end.
pub fn is_field_value(value: &[u8]) -> bool
    ensures { result ≡ is_field_value value.now }
{
    are_value_bytes(value) && !is_blank_at(value.first()) && !is_blank_at(value.last())
}

/// Returns whether all bytes are allowed in a field value. Takes four at a time while they are in
/// the range of nearly all bytes.
fn are_value_bytes(value: &[u8]) -> bool
    ensures { result ≡ list_all is_value_byte value.now }
{
    let mut rest = value;
    while let [a, b, c, d, others @ ..] = rest {
        if !(is_plain(*a) && is_plain(*b) && is_plain(*c) && is_plain(*d)) {
            return is_each_value_byte(rest);
        }
        rest = others;
    }
    is_each_value_byte(rest)
}

/// Returns whether a byte is a space or a visible character of ASCII.
fn is_plain(byte: u8) -> bool
    ensures { result ≡ true → is_value_byte byte ≡ true }
{
    byte > 31 && byte < 127
}

/// Returns whether each byte is allowed in a field value.
fn is_each_value_byte(value: &[u8]) -> bool
    ensures { result ≡ list_all is_value_byte value.now }
{
    for byte in value {
        if !is_value_byte(*byte) {
            return false;
        }
    }
    true
}

/// Returns whether a byte is allowed in a field value: a tab, or any byte but a control character.
fn is_value_byte(byte: u8) -> bool
    ensures { result ≡ is_value_byte byte }
{
    byte == b'\t' || (byte > 31 && byte != 127)
}

/// Returns whether there is a byte and it is a space or a tab.
fn is_blank_at(byte: Option<&u8>) -> bool
    ensures { result ≡ is_blank_at (option_copied byte.entry) }
{
    match byte {
        Some(byte) => *byte == b' ' || *byte == b'\t',
        None => false,
    }
}
