//! The fields of subprotocols of a session: a client offers some in `wt-available-protocols`, and the
//! server chooses one of them in `wt-protocol` (later drafts of WebTransport over HTTP/3).
//!
//! A server that needs none of them leaves `wt-protocol` out.
ghost use Rattle.std.specs.Prelude.{◌≡◌, ◌≢◌, [], ◌∷◌, ◌++◌, map, codes, true, false};
ghost use Rattle.std.specs.Prelude.{OnOk, IfOk, OnErr, MatchResult, option_map};
ghost use Rattle.std.specs.List.{list_all};
ghost use Rattle.std.specs.Option.{option_copied};
ghost use Rattle.wtp_fields.specs.FieldList.{values_of};
ghost use Rattle.wtp_subprotocols.specs.Strings.{is_string as is_string_text, written_list, written_string};
ghost use Rattle.wtp_subprotocols.specs.Strings.{others_bytes, string_after};
ghost use Rattle.wtp_subprotocols.specs.Subprotocols.{alpn_error, offered_in, chosen_in, is_fine};
ghost use Rattle.wtp_subprotocols.specs.Subprotocols.{list_needs_memory, string_needs_memory};

use crate::strings::{is_string, read_string, read_strings, write_string};
use std::alloc::{AllocError, Global};
use thiserror::Error;
use wtp_core::error::{Code, ErrorScope};
use wtp_fields::fields::FieldList;

/// The server chose a subprotocol that the client did not offer. The client ends the session.
#[derive(Debug, Drop, Clone, Copy, PartialEq, Eq, Error)]
#[error("the subprotocol was not offered")]
pub struct NotOffered;

impl NotOffered {
    /// Returns the error code, [`Code::WT_ALPN_ERROR`].
    pub fn code(self) -> Code
        ensures { result ≡ alpn_error }
    {
        Code::WT_ALPN_ERROR
    }

    /// Returns what the error ends: the stream of the session, and the session with it.
    pub fn scope(self) -> ErrorScope
        ensures { result ≡ ErrorScope.Stream }
    {
        ErrorScope::Stream
    }
}

/// The reason why a field was not written.
#[derive(Debug, Drop, Clone, Copy, PartialEq, Eq, Error)]
pub enum WriteError {
    /// A name has a byte that no string has: a control character, or one above 0x7e (RFC 9651, section
    /// 3.3.3).
    #[error("a subprotocol has an invalid byte")]
    InvalidByte,
    /// Memory allocation failed.
    #[error("no memory")]
    Memory,
}

impl From<AllocError> for WriteError {
    ghost use Rattle.std.specs.Prelude.{◌≡◌};
    ghost use Rattle.wtp_subprotocols.specs.declared.subprotocols.WriteError.TheVariants.{Memory};

    ghost from_gives = { λ _ e. e ≡ Memory };

    fn from(_e: AllocError) -> WriteError {
        WriteError::Memory
    }
}

/// Returns the subprotocols that a request offers in `wt-available-protocols`, in order: a list of
/// strings (RFC 9651, section 3.1), whose lines are joined. Returns `None` if the request has no such
/// field, or if the list is invalid, for example because a member is no string. Parameters of a string
/// are ignored; of a value in them that is no string only the bytes are checked.
///
/// # Errors
///
/// If allocation fails, which it can only if there are several such fields, or if the only one begins
/// with a string.
pub fn available_protocols(
    alloc: Global,
    request: &FieldList,
) -> Result<Option<Vec<Vec<u8>>>, AllocError>
    ensures offered { IfOk result (λ found. option_map (λ values. map (λ v. v.items) values.items) found
        ≡ offered_in request.now) }
    ensures memory { OnErr result
        (list_needs_memory (values_of (codes "wt-available-protocols") request.now) ≡ true) }
{
    let mut lines = request.all(b"wt-available-protocols");
    let Some(first) = lines.next() else {
        return Ok(None);
    };
    let Some(second) = lines.next() else {
        return read_strings(alloc, first, true);
    };
    let mut joined = Vec::from_slice(alloc, first)?;
    push_line(&mut joined, second)?;
    while let Some(line) = lines.next() {
        push_line(&mut joined, line)?;
    }
    read_strings(alloc, joined.as_slice(), true)
}

/// Appends a comma, a space and another line of a list (RFC 9110, section 5.2).
fn push_line(text: &mut Vec<u8>, line: &[u8]) -> Result<(), AllocError>
    ensures { OnOk result (text.new.items ≡ text.old.items ++ codes ", " ++ line.now) }
{
    text.extend_from_slice(b", ")?;
    text.extend_from_slice(line)
}

/// Returns the subprotocol that a response chooses in `wt-protocol`: one string (RFC 9651, section
/// 3.3.3), whose parameters are ignored, as in [`available_protocols`]. Returns `None` if the response has
/// no such field or several, or if it is invalid.
///
/// # Errors
///
/// If allocation fails, which it can only if there is one such field, and it begins with a string.
pub fn protocol(alloc: Global, response: &FieldList) -> Result<Option<Vec<u8>>, AllocError>
    ensures chosen { IfOk result (λ found. option_map (λ value. value.items) found ≡ chosen_in response.now) }
    ensures memory { OnErr result (string_needs_memory (values_of (codes "wt-protocol") response.now) ≡ true) }
{
    let mut lines = response.all(b"wt-protocol");
    let Some(line) = lines.next() else {
        return Ok(None);
    };
    if lines.next().is_some() {
        return Ok(None);
    }
    read_string(alloc, line)
}

/// Checks the subprotocol that a server chose, for the client that offered these. `None`, which chooses
/// none, is always valid.
///
/// # Errors
///
/// If another subprotocol was chosen.
pub fn check_protocol(chosen: Option<&[u8]>, offered: &[&[u8]]) -> Result<(), NotOffered>
    ensures { MatchResult result
        (λ _. is_fine (option_copied chosen.entry) (map (λ o. o.now) offered.now) ≡ true)
        (λ _. is_fine (option_copied chosen.entry) (map (λ o. o.now) offered.now) ≡ false) }
{
    let Some(chosen) = chosen else {
        return Ok(());
    };
    for offer in offered {
        if *offer == chosen {
            return Ok(());
        }
    }
    Err(NotOffered)
}

/// Writes the value of `wt-available-protocols` that offers these subprotocols. That of none is empty:
/// leave the field out then (RFC 9651, section 4.1).
///
/// # Errors
///
/// [`WriteError::InvalidByte`] if a name has a byte that no string has. Otherwise
/// [`WriteError::Memory`] if allocation fails, which it can only if there is a name.
#[tactic(auto, using(crate::proofs::StringLemmas::string_before))]
pub fn write_available_protocols(alloc: Global, protocols: &[&[u8]]) -> Result<Vec<u8>, WriteError>
    ensures { MatchResult result
        (λ text. (list_all is_string_text (map (λ p. p.now) protocols.now) ≡ true)
        × (text.items ≡ written_list (map (λ p. p.now) protocols.now)))
        (λ e. (e ≡ WriteError.InvalidByte → list_all is_string_text (map (λ p. p.now) protocols.now) ≡ false)
        × (e ≡ WriteError.Memory → list_all is_string_text (map (λ p. p.now) protocols.now) ≡ true)
        × (e ≡ WriteError.Memory → protocols.now ≢ [])) }
{
    if !are_strings(protocols) {
        return Err(WriteError::InvalidByte);
    }
    let mut text = Vec::new(alloc);
    let Some((first, others)) = protocols.split_first() else {
        return Ok(text);
    };
    write_string(&mut text, first)?;
    write_others(&mut text, others)?;
    Ok(text)
}

/// Appends strings, each after a comma and a space.
fn write_others(text: &mut Vec<u8>, others: &[&[u8]]) -> Result<(), AllocError>
    ensures { OnOk result (text.new.items ≡ text.old.items
        ++ others_bytes (map (string_after (32 ∷ [])) (map (λ p. p.now) others.now))) }
{
    for other in others {
        write_other(text, other)?;
    }
    Ok(())
}

/// Appends a comma, a space and a string.
fn write_other(text: &mut Vec<u8>, other: &[u8]) -> Result<(), AllocError>
    ensures { OnOk result (text.new.items ≡ text.old.items ++ codes ", " ++ written_string other.now) }
{
    text.extend_from_slice(b", ")?;
    write_string(text, other)
}

/// Writes the value of `wt-protocol` that chooses this subprotocol.
///
/// # Errors
///
/// [`WriteError::InvalidByte`] if the name has a byte that no string has. Otherwise
/// [`WriteError::Memory`] if allocation fails.
pub fn write_protocol(alloc: Global, protocol: &[u8]) -> Result<Vec<u8>, WriteError>
    ensures { MatchResult result
        (λ text. (is_string_text protocol.now ≡ true) × (text.items ≡ written_string protocol.now))
        (λ e. (e ≡ WriteError.InvalidByte → is_string_text protocol.now ≡ false)
        × (e ≡ WriteError.Memory → is_string_text protocol.now ≡ true)) }
{
    if !is_string(protocol) {
        return Err(WriteError::InvalidByte);
    }
    let mut text = Vec::new(alloc);
    write_string(&mut text, protocol)?;
    Ok(text)
}

/// Returns whether all are values of strings.
fn are_strings(values: &[&[u8]]) -> bool
    ensures { result ≡ list_all is_string_text (map (λ v. v.now) values.now) }
{
    for value in values {
        if !is_string(value) {
            return false;
        }
    }
    true
}
