//! Names and values of fields.
ghost use Rattle.std.specs.Prelude.{◌≡◌};
ghost use Rattle.std.specs.Str.{str_eq_ignore_ascii_case};
ghost use Rattle.wtp_qpack.specs.FieldLines.{seen_line};
ghost use Rattle.wtp_messages.specs.Names.{is_pseudo as is_pseudo_field, is_whole_token as is_whole_token_text, is_field_name as is_field_name_text, has_field as has_field_of, has_value as has_value_of};

use wtp_fields::fields::{FieldLine, FieldList, is_lower_token, is_token};

/// Returns whether a field is a pseudo-header field (RFC 9114, section 4.3).
pub(crate) fn is_pseudo(line: FieldLine<'_>) -> bool
    ensures { result ≡ is_pseudo_field (seen_line line.entry) }
{
    matches!(line.name.first(), Some(b':'))
}

/// Returns whether the bytes are a token of at least one byte (RFC 9110, section 5.6.2).
pub(crate) fn is_whole_token(text: &[u8]) -> bool
    ensures { result ≡ is_whole_token_text text.now }
{
    !text.is_empty() && is_token(text)
}

/// Returns whether the bytes are the name of a field, in lower case (RFC 9114, section 4.2).
pub(crate) fn is_field_name(name: &[u8]) -> bool
    ensures { result ≡ is_field_name_text name.now }
{
    !name.is_empty() && is_lower_token(name)
}

/// Returns whether two texts are equal but for the case of ASCII letters.
pub(crate) fn equal_ignoring_case(text: &[u8], other: &[u8]) -> bool
    ensures { result ≡ str_eq_ignore_ascii_case text.now other.now }
{
    text.eq_ignore_ascii_case(other)
}

/// Returns whether a list has a field of this name.
#[tactic(auto, using(crate::proofs::NameLemmas::found_copied))]
pub(crate) fn has_field(list: &FieldList, name: &[u8]) -> bool
    ensures { result ≡ has_field_of name.now list.now }
{
    list.first(name).is_some()
}

/// Returns whether the first field of a name has this value.
pub(crate) fn has_value(list: &FieldList, name: &[u8], text: &[u8]) -> bool
    ensures { result ≡ has_value_of name.now text.now list.now }
{
    match list.first(name) {
        Some(value) => value == text,
        None => false,
    }
}
