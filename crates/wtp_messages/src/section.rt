//! The rules of every field section (RFC 9114, sections 4.2 and 4.3).
ghost use Rattle.std.specs.Prelude.{◌≡◌, true, false, not, MatchResult};
ghost use Rattle.std.specs.List.{list_any};
ghost use Rattle.wtp_qpack.specs.FieldLines.{seen_line};
ghost use Rattle.wtp_messages.specs.Names.{is_one_of, starts_with};
ghost use Rattle.wtp_messages.specs.Section.{connection_names, allows_te as allows_te_value, are_pseudo_first, is_repeated as is_repeated_name, pseudo_names, line_breaks, section_breaks, announces as announces_is, announced, IsSection};

use crate::length::read_length;
use crate::malformed::Malformed;
use crate::names::{equal_ignoring_case, is_field_name, is_pseudo};
use wtp_fields::fields::{FieldLine, FieldList, is_field_value};

/// The kind of a field section (RFC 9114, section 4.1).
#[derive(Clone, Copy, Debug, PartialEq, Eq)]
pub enum SectionKind {
    /// The header section of a request.
    Request,
    /// The header section of a response, other than of a tunnel.
    Response,
    /// That of a 2xx response to a CONNECT request other than for a session: it opens a tunnel, and a
    /// `content-length` says nothing (RFC 9110, section 9.3.6).
    Tunnel,
    /// A trailer section.
    Trailers,
}

/// Checks the trailer section of a request or response.
///
/// Returns a rule that it breaks, if it breaks one. It may be any of those from
/// [`Malformed::InvalidName`] to [`Malformed::RepeatedPseudoHeader`]. Other fields that belong into a
/// header section, `content-length` among them, mean nothing here (RFC 9110, section 6.5.1).
pub fn check_trailers(list: &FieldList) -> Result<(), Malformed>
    ensures { MatchResult result (λ _. IsSection SectionKind.Trailers list.now)
        (λ rule. section_breaks SectionKind.Trailers list.now rule ≡ true) }
{
    check_section(list, SectionKind::Trailers)?;
    Ok(())
}

/// Checks a section by the rules of every section, and returns the `content-length` that it announces.
/// Returns a rule that it breaks.
#[tactic(auto, unfolding(crate::specs::Section::section_breaks))]
pub(crate) fn check_section(list: &FieldList, kind: SectionKind) -> Result<Option<u64>, Malformed>
    ensures { MatchResult result
        (λ length. IsSection kind list.now × (length ≡ announced kind list.now))
        (λ rule. section_breaks kind list.now rule ≡ true) }
{
    check_lines(list, kind)?;
    if has_late_pseudo(list) {
        return Err(Malformed::LatePseudoHeader);
    }
    if has_repeated_pseudo(list, kind) {
        return Err(Malformed::RepeatedPseudoHeader);
    }
    if !announces(kind) {
        return Ok(None);
    }
    read_length(list)
}

/// Returns whether a section of this kind may say how much content there is.
fn announces(kind: SectionKind) -> bool
    ensures { result ≡ announces_is kind }
{
    match kind {
        SectionKind::Request | SectionKind::Response => true,
        SectionKind::Tunnel | SectionKind::Trailers => false,
    }
}

/// Checks each line by itself. Returns a rule that one breaks.
fn check_lines(list: &FieldList, kind: SectionKind) -> Result<(), Malformed>
    ensures { MatchResult result
        (λ _. (rule : Malformed) → list_any (line_breaks kind rule) list.now ≡ false)
        (λ rule. list_any (line_breaks kind rule) list.now ≡ true) }
{
    let mut lines = list.iter();
    while let Some(line) = lines.next() {
        check_line(line, kind)?;
    }
    Ok(())
}

/// Checks one line. Returns a rule that it breaks.
fn check_line(line: FieldLine<'_>, kind: SectionKind) -> Result<(), Malformed>
    ensures { MatchResult result
        (λ _. (rule : Malformed) → line_breaks kind rule (seen_line line.entry) ≡ false)
        (λ rule. line_breaks kind rule (seen_line line.entry) ≡ true) }
{
    if is_pseudo(line) {
        if !is_pseudo_name(line.name, kind) {
            return Err(Malformed::UnknownPseudoHeader);
        }
    } else if !is_field_name(line.name) {
        return Err(Malformed::InvalidName);
    }
    if !is_field_value(line.value) {
        return Err(Malformed::InvalidValue);
    }
    if is_connection_name(line.name) {
        return Err(Malformed::ConnectionField);
    }
    if line.name == b"te".as_slice() && !allows_te(kind, line.value) {
        return Err(Malformed::InvalidTe);
    }
    Ok(())
}

/// Returns whether a name is that of a pseudo-header field of this kind of section.
fn is_pseudo_name(name: &[u8], kind: SectionKind) -> bool
    ensures { result ≡ is_one_of (pseudo_names kind) name.now }
{
    match kind {
        SectionKind::Request => {
            name == b":method".as_slice()
                || name == b":scheme".as_slice()
                || name == b":authority".as_slice()
                || name == b":path".as_slice()
                || name == b":protocol".as_slice()
        }
        SectionKind::Response | SectionKind::Tunnel => name == b":status".as_slice(),
        SectionKind::Trailers => false,
    }
}

/// Returns whether a name is that of a field that is specific to a connection.
fn is_connection_name(name: &[u8]) -> bool
    ensures { result ≡ is_one_of connection_names name.now }
{
    name == b"connection".as_slice()
        || name == b"keep-alive".as_slice()
        || name == b"proxy-connection".as_slice()
        || name == b"transfer-encoding".as_slice()
        || name == b"upgrade".as_slice()
}

/// Returns whether a section of this kind may have a `te` field with this value.
fn allows_te(kind: SectionKind, value: &[u8]) -> bool
    ensures { result ≡ allows_te_value kind value.now }
{
    match kind {
        SectionKind::Request => equal_ignoring_case(value, b"trailers"),
        SectionKind::Response | SectionKind::Tunnel | SectionKind::Trailers => false,
    }
}

/// Returns whether a pseudo-header field follows another field.
fn has_late_pseudo(list: &FieldList) -> bool
    ensures { result ≡ not (are_pseudo_first list.now) }
{
    let mut lines = list.iter();
    let mut regular = false;
    while let Some(line) = lines.next() {
        if !is_pseudo(line) {
            regular = true;
        } else if regular {
            return true;
        }
    }
    false
}

/// Returns whether a pseudo-header field of this kind of section is repeated, in a list that begins
/// with its pseudo-header fields.
fn has_repeated_pseudo(list: &FieldList, kind: SectionKind) -> bool
    requires { are_pseudo_first list.now ≡ true }
    ensures { result ≡ list_any (is_repeated_name list.now) (pseudo_names kind) }
{
    match kind {
        SectionKind::Request => {
            is_repeated_pseudo(list, b":method")
                || is_repeated_pseudo(list, b":scheme")
                || is_repeated_pseudo(list, b":authority")
                || is_repeated_pseudo(list, b":path")
                || is_repeated_pseudo(list, b":protocol")
        }
        SectionKind::Response | SectionKind::Tunnel => is_repeated_pseudo(list, b":status"),
        SectionKind::Trailers => false,
    }
}

/// Returns whether two fields or more have this name of a pseudo-header field, in a list that begins
/// with its pseudo-header fields. Reads only these.
#[tactic(auto, using(crate::proofs::PseudoLemmas::other_name, crate::proofs::PseudoLemmas::first_named, crate::proofs::PseudoLemmas::second_named, crate::proofs::PseudoLemmas::none_follow))]
fn is_repeated_pseudo(list: &FieldList, name: &[u8]) -> bool
    requires first { are_pseudo_first list.now ≡ true }
    requires pseudo { starts_with 58 name.now ≡ true }
    ensures { result ≡ is_repeated_name list.now name.now }
{
    let mut found = false;
    let mut lines = list.iter();
    while let Some(line) = lines.next() {
        if !is_pseudo(line) {
            return false;
        }
        if line.name == name {
            if found {
                return true;
            }
            found = true;
        }
    }
    false
}

/// Returns whether two fields or more have this name.
pub(crate) fn is_repeated(list: &FieldList, name: &[u8]) -> bool
    ensures { result ≡ is_repeated_name list.now name.now }
{
    let mut values = list.all(name);
    values.next().is_some() && values.next().is_some()
}
