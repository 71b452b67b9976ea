//! What is wrong with a single field line.

use wt_inspection_model::item::{Line, Rule};

/// Returns what is wrong with the name or the value of a field line.
pub(crate) fn warning_of_line(line: &Line) -> Option<Rule> {
    let name = line.name.as_slice();
    if name.iter().any(|&byte| byte.is_ascii_uppercase()) {
        return Some(Rule::UpperCaseName);
    }
    if !is_name(name) {
        return Some(Rule::BadName);
    }
    warning_of_value(line.value.as_slice()).or(warning_of_connection(line))
}

/// Returns whether the bytes are a field name, or one after the colon of a pseudo-header (RFC 9110,
/// section 5.6.2).
fn is_name(name: &[u8]) -> bool {
    let token = match name {
        [b':', token @ ..] => token,
        token => token,
    };
    !token.is_empty() && token.iter().all(|&byte| is_token_byte(byte))
}

/// Returns whether a token may have this byte (RFC 9110, section 5.6.2).
fn is_token_byte(byte: u8) -> bool {
    byte.is_ascii_alphanumeric()
        || matches!(
            byte,
            b'!' | b'#'
                | b'$'
                | b'%'
                | b'&'
                | b'\''
                | b'*'
                | b'+'
                | b'-'
                | b'.'
                | b'^'
                | b'_'
                | b'`'
                | b'|'
                | b'~'
        )
}

/// Returns what is wrong with a value.
fn warning_of_value(value: &[u8]) -> Option<Rule> {
    if value.iter().any(|&byte| is_control(byte)) {
        return Some(Rule::BadValue);
    }
    if is_blank(value.first()) || is_blank(value.last()) {
        return Some(Rule::BlankValue);
    }
    None
}

/// Returns whether a byte is a control character other than a tab (RFC 9110, section 5.5).
fn is_control(byte: u8) -> bool {
    byte.is_ascii_control() && byte != b'\t'
}

/// Returns whether a byte is a space or a tab.
fn is_blank(byte: Option<&u8>) -> bool {
    matches!(byte, Some(b' ') | Some(b'\t'))
}

/// Returns what is wrong with a field about a connection.
fn warning_of_connection(line: &Line) -> Option<Rule> {
    let Ok(name) = str::from_utf8(line.name.as_slice()) else {
        return None;
    };
    match name {
        "connection" | "keep-alive" | "proxy-connection" | "transfer-encoding" | "upgrade" => Some(
            Rule::ConnectionField,
        ),
        "te" if line.value.as_slice() != "trailers".as_bytes() => Some(Rule::BadTe),
        _ => None,
    }
}
