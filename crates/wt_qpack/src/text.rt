//! Bytes and faults as text.

ghost use Rattle.std.specs.Prelude.{◌≡◌, ◌++◌, OnOk, IsErr, MatchOption, string_bytes};
ghost use Rattle.wt_qpack.specs.Lines.{bytes_text, fault_line};

use std::alloc::{AllocError, Global};
use wtp_core::error::Code;

/// Appends bytes in hexadecimal.
pub fn add_bytes(out: &mut String, alloc: Global, bytes: &[u8]) -> Result<(), AllocError>
    ensures { OnOk result (string_bytes out.new ≡ string_bytes out.old ++ bytes_text bytes.now) }
{
    if bytes.is_empty() {
        return out.push_str("-");
    }
    let digits = hex::encode(alloc, bytes)?;
    out.push_str(digits.as_str())
}

/// Appends the line of a fault. A failed allocation has no code.
pub fn add_fault(out: &mut String, code: Option<Code>) -> Result<(), AllocError>
    ensures { MatchOption code (IsErr result)
        (λ number. OnOk result (string_bytes out.new ≡ string_bytes out.old ++ fault_line number)) }
{
    match code {
        Some(code) => {
            let number = code.number().into_inner();
            writeln!(out, "fault {number}")
        }
        None => Err(AllocError),
    }
}
