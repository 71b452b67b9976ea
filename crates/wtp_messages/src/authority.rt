//! Authorities (RFC 3986, sections 3.2.2 and 3.2.3; RFC 9110, sections 4.2 and 7.2).
ghost use Rattle.std.specs.Prelude.{◌≡◌, ◌==◌, codes};
ghost use Rattle.std.specs.List.{list_all, list_any};
ghost use Rattle.wtp_messages.specs.Length.{is_digit};
ghost use Rattle.wtp_messages.specs.Authority.{is_authority as is_authority_text, is_name_byte as is_name_byte_of, is_plain_byte as is_plain_byte_of, is_hex as is_hex_byte, starts_with_hex as starts_with_hex_text};
ghost use Rattle.wtp_messages.specs.Authority.{is_name_rest as is_name_rest_text, is_port as is_port_text, is_port_after as is_port_after_text, is_literal as is_literal_text, is_literal_byte as is_literal_byte_of, is_literal_rest as is_literal_rest_text};

/// Returns whether a text is a host that is not empty, and maybe a port after a colon. `must`: there
/// must be a port, of at least one digit.
pub(crate) fn is_authority(text: &[u8], must: bool) -> bool
    ensures { result ≡ is_authority_text must text.now }
{
    match text.split_first() {
        Some((b'[', others)) => is_literal(others, must),
        Some((first, others)) => is_name_byte(*first, others) && is_name_rest(others, must),
        None => false,
    }
}

/// Returns whether a text is the rest of a name, and maybe a port.
fn is_name_rest(text: &[u8], must: bool) -> bool
    ensures { result ≡ is_name_rest_text must text.now }
{
    let mut rest = text;
    while let Some((byte, others)) = rest.split_first() {
        if *byte == b':' {
            return is_port(others, must);
        }
        if !is_name_byte(*byte, others) {
            return false;
        }
        rest = others;
    }
    !must
}

/// Returns whether a text is what follows the bracket that begins an IP literal, and maybe a port.
fn is_literal(text: &[u8], must: bool) -> bool
    ensures { result ≡ is_literal_text must text.now }
{
    match text.split_first() {
        Some((b'v' | b'V', others)) => is_literal_rest(others, true, must),
        Some((first, others)) => {
            is_literal_byte(*first, false) && is_literal_rest(others, false, must)
        }
        None => false,
    }
}

/// Returns whether a text is the rest of an IP literal, and maybe a port. `later`: its address is of
/// a later version than 6.
fn is_literal_rest(text: &[u8], later: bool, must: bool) -> bool
    ensures { result ≡ is_literal_rest_text later must text.now }
{
    let mut rest = text;
    while let Some((byte, others)) = rest.split_first() {
        if *byte == b']' {
            return is_port_after(others, must);
        }
        if !is_literal_byte(*byte, later) {
            return false;
        }
        rest = others;
    }
    false
}

/// Returns whether a text is what may follow a host: a colon and a port, or nothing.
fn is_port_after(text: &[u8], must: bool) -> bool
    ensures { result ≡ is_port_after_text must text.now }
{
    match text.split_first() {
        Some((first, others)) => *first == b':' && is_port(others, must),
        None => !must,
    }
}

/// Returns whether a text is the digits of a port.
fn is_port(text: &[u8], must: bool) -> bool
    ensures { result ≡ is_port_text must text.now }
{
    are_digits(text) && (!must || !text.is_empty())
}

/// Returns whether all bytes are decimal digits.
fn are_digits(text: &[u8]) -> bool
    ensures { result ≡ list_all is_digit text.now }
{
    for byte in text {
        if !byte.is_ascii_digit() {
            return false;
        }
    }
    true
}

/// Returns whether a byte is allowed in a name, before these.
fn is_name_byte(byte: u8, others: &[u8]) -> bool
    ensures { result ≡ is_name_byte_of byte others.now }
{
    is_plain_byte(byte) || (byte == b'%' && starts_with_hex(others))
}

/// Returns whether a text begins with two hexadecimal digits.
fn starts_with_hex(text: &[u8]) -> bool
    ensures { result ≡ starts_with_hex_text text.now }
{
    match text {
        [first, second, ..] => is_hex(*first) && is_hex(*second),
        _ => false,
    }
}

/// Returns whether a byte is allowed between the brackets of an IP literal.
fn is_literal_byte(byte: u8, later: bool) -> bool
    ensures { result ≡ is_literal_byte_of later byte }
{
    if later {
        is_plain_byte(byte) || byte == b':'
    } else {
        is_hex(byte) || byte == b':' || byte == b'.'
    }
}

/// Returns whether a byte is unreserved or a sub-delimiter (RFC 3986, sections 2.2 and 2.3).
fn is_plain_byte(byte: u8) -> bool
    ensures { result ≡ is_plain_byte_of byte }
{
    byte.is_ascii_alphanumeric() || is_mark(byte)
}

/// Returns whether a byte is one of these other than letters and digits.
fn is_mark(byte: u8) -> bool
    ensures { result ≡ list_any (λ mark. mark == byte) (codes "-._~!$&'()*+,;=") }
{
    b"-._~!$&'()*+,;=".contains(&byte)
}

/// Returns whether a byte is a hexadecimal digit.
fn is_hex(byte: u8) -> bool
    ensures { result ≡ is_hex_byte byte }
{
    byte.is_ascii_hexdigit()
}
