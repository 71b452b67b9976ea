//! Reads the input.
ghost use Rattle.std.specs.Io.KnownBytes.{IsAtEnd};
ghost use Rattle.std.specs.Prelude.{◌≡◌, ◌≤◌, ◌<◌, ◌⊎◌, ◌++◌, ◌∷◌, ℕ, List, [], None, Some, Err};
ghost use Rattle.std.specs.Prelude.{IfErr, IfOk, IfSome, length, vec_len};
ghost use Rattle.wt_inspect.specs.Input.{InputFails};
ghost use Rattle.wt_inspect.specs.HexReading.{FailsAt, IsRead};
ghost use Rattle.wt_inspect.specs.HexText.{HasByte, hex_bytes, hex_value, is_blank, is_x, unless_blank};

use crate::failure::Failure;
use std::alloc::Global;
use std::io::Read;

/// The maximum length of the input, in bytes.
const MAX_INPUT_LEN: usize = 67_108_864;

/// Reads all bytes of a reader.
///
/// # Errors
///
/// Returns [`Failure::TooLong`] if there are more than 67108864 bytes, [`Failure::Input`] if
/// reading fails, and [`Failure::Memory`] if allocation fails.
#[tactic(auto, using(crate::proofs::InputLemmas::failed, crate::proofs::InputLemmas::unstored, crate::proofs::InputLemmas::too_much))]
pub fn read_all<R: Read>(alloc: Global, input: &mut R) -> Result<Vec<u8>, Failure>
    ensures whole { IfOk result (λ bytes. IfSome (R.remaining input.old) (λ xs. bytes.items ≡ xs)) }
    ensures short { IfOk result (λ bytes. vec_len bytes ≤ 67108864) }
    ensures ended { IfOk result (λ _. IsAtEnd (R.remaining input.new)) }
    ensures too_long { result ≡ Err Failure.TooLong
        → IfSome (R.remaining input.old) (λ xs. 67108864 < length xs) }
    ensures failures { IfErr result (λ e. (e ≡ Failure.TooLong)
        ⊎ ((e ≡ Failure.Input) ⊎ (e ≡ Failure.Memory))) }
    ensures taken { IfErr result (λ e. InputFails e (R.remaining input.old)
        (R.remaining input.new)) }
{
    let mut bytes = Vec::new(alloc);
    let mut chunk = [0; 16_384];
    // Each turn except the last appends at least one byte.
    'turns: loop {
        let count = input.read(&mut chunk).map_err(|_| Failure::Input)?;
        if count == 0 {
            return Ok(bytes);
        }
        bytes
            .extend_from_slice(&chunk[..count])
            .map_err(|_| Failure::Memory)?;
        if bytes.len() > MAX_INPUT_LEN {
            return Err(Failure::TooLong);
        }
    }
}

/// Decodes hexadecimal text. Blanks and line ends are ignored, and `0x` where a byte could begin.
///
/// Returns [`Failure::NotHex`] if the text contains another character or ends after half a byte,
/// and [`Failure::Memory`] if allocation fails.
pub fn read_hex(alloc: Global, text: &[u8]) -> Result<Vec<u8>, Failure>
    ensures decoded { IfOk result (λ bytes. hex_bytes text.now ≡ Some bytes.items) }
    ensures failures { IfErr result (λ e. (e ≡ Failure.NotHex) ⊎ (e ≡ Failure.Memory)) }
    ensures not_hex { result ≡ Err Failure.NotHex → hex_bytes text.now ≡ None }
    ensures memory { result ≡ Err Failure.Memory → HasByte text.now }
{
    let mut bytes = Vec::new(alloc);
    let mut half = None;
    for byte in text {
        match take_byte(&mut bytes, half, *byte) {
            Ok(next) => half = next,
            Err(failure) => return Err(failure),
        }
    }
    match half {
        None => Ok(bytes),
        Some(_) => Err(Failure::NotHex),
    }
}

/// Decodes the next byte of hexadecimal text. `half` is the pending high digit; the result is the
/// new one.
fn take_byte(bytes: &mut Vec<u8>, half: Option<u8>, byte: u8) -> Result<Option<u8>, Failure>
    requires { IfSome half (λ digit. digit < 16) }
    ensures digit { IfOk result (λ new. IfSome new (λ digit. digit < 16)) }
    ensures read { IfOk result (λ new. (text : List ℕ) → IsRead text bytes.old.items half
        → IsRead (text ++ unless_blank byte) bytes.new.items new) }
    ensures failures { IfErr result (λ e. FailsAt e bytes.old.items half (unless_blank byte)) }
{
    if is_blank(byte) {
        return Ok(half);
    }
    take_character(bytes, half, byte)
}

/// Decodes the next character, which is not a blank.
fn take_character(bytes: &mut Vec<u8>, half: Option<u8>, byte: u8) -> Result<Option<u8>, Failure>
    requires { IfSome half (λ digit. digit < 16) }
    ensures digit { IfOk result (λ new. IfSome new (λ digit. digit < 16)) }
    ensures read { IfOk result (λ new. (text : List ℕ) → IsRead text bytes.old.items half
        → IsRead (text ++ byte ∷ []) bytes.new.items new) }
    ensures failures { IfErr result (λ e. FailsAt e bytes.old.items half (byte ∷ [])) }
{
    // The 0 before an x is a prefix, not a digit.
    if half == Some(0) && is_x(byte) {
        return Ok(None);
    }
    match digit_of(byte) {
        Some(digit) => take_digit(bytes, half, byte, digit),
        None => Err(Failure::NotHex),
    }
}

/// Decodes the next digit, which this byte writes. `half` is the pending high digit; the result is
/// the new one.
fn take_digit(
    bytes: &mut Vec<u8>,
    half: Option<u8>,
    byte: u8,
    digit: u8,
) -> Result<Option<u8>, Failure>
    requires high { IfSome half (λ high. high < 16) }
    requires low { digit < 16 }
    requires value { hex_value byte ≡ Some digit }
    ensures digit { IfOk result (λ new. IfSome new (λ digit. digit < 16)) }
    ensures read { IfOk result (λ new. (text : List ℕ) → IsRead text bytes.old.items half
        → IsRead (text ++ byte ∷ []) bytes.new.items new) }
    ensures failures { IfErr result (λ e. FailsAt e bytes.old.items half (byte ∷ [])) }
{
    match half {
        None => Ok(Some(digit)),
        Some(high) => match bytes.push(16 * high + digit) {
            Ok(()) => Ok(None),
            Err(_) => Err(Failure::Memory),
        },
    }
}

/// Returns whether a byte is a blank or a part of a line end.
fn is_blank(byte: u8) -> bool
    ensures { result ≡ is_blank byte }
{
    byte == b' ' || byte == b'\t' || byte == b'\r' || byte == b'\n'
}

/// Returns whether a byte is the letter of the prefix `0x`.
fn is_x(byte: u8) -> bool
    ensures { result ≡ is_x byte }
{
    byte == b'x' || byte == b'X'
}

/// Returns the value of a hexadecimal digit.
fn digit_of(byte: u8) -> Option<u8>
    ensures value { result ≡ hex_value byte }
    ensures small { IfSome result (λ digit. digit < 16) }
{
    match byte {
        b'0'..=b'9' => Some(byte - b'0'),
        b'a'..=b'f' => Some(byte - b'a' + 10),
        b'A'..=b'F' => Some(byte - b'A' + 10),
        _ => None,
    }
}
