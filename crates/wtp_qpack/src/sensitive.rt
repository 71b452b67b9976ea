//! Fields that are never indexed (RFC 9204, sections 4.5.4, 4.5.6 and 7.1.3).

ghost use Rattle.std.specs.Prelude.{◌≡◌};
ghost use Rattle.std.specs.List.{list_any};
ghost use Rattle.std.specs.Str.{bytes_eq};
ghost use Rattle.wtp_qpack.specs.Sensitive.{secret_names, is_short_cookie, is_sensitive};

/// Returns whether a name is that of a field whose values are secrets.
fn is_secret(name: &[u8]) -> bool
    ensures { result ≡ list_any (λ secret. bytes_eq name.now secret) secret_names }
{
    name == b"authorization".as_slice()
        || name == b"proxy-authorization".as_slice()
        || name == b"set-cookie".as_slice()
}

/// Returns whether a field is a cookie that is short enough to be guessed.
fn is_short_cookie(name: &[u8], value: &[u8]) -> bool
    ensures { result ≡ is_short_cookie (name.now, value.now) }
{
    name == b"cookie".as_slice() && value.len() < 20
}

/// Returns whether a field is never indexed: credentials (`authorization`, `proxy-authorization`),
/// `set-cookie`, and cookies of fewer than 20 bytes. An attacker who shares the connection could guess
/// them from the lengths of sections (RFC 9204, section 7.1.3).
///
/// A literal of such a field has the bit N, so that whoever forwards it does not index it either.
pub fn is_sensitive(name: &[u8], value: &[u8]) -> bool
    ensures { result ≡ is_sensitive (name.now, value.now) }
{
    is_secret(name) || is_short_cookie(name, value)
}
