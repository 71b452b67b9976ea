//! How the input ends, and warnings about it.

ghost use Rattle.std.specs.Prelude.{◌≡◌};
ghost use Rattle.wt_inspection_model.specs.FaultCodes.{fault_number};

use crate::item::rule::Rule;
use wtp_core::error::{Code, ErrorCode};

/// How the input ends.
#[derive(Clone, Copy, Debug, PartialEq, Eq)]
pub enum End {
    /// After a complete item.
    Complete,
    /// Within an item that more bytes may complete.
    Cut(Cut),
    /// At the first error. Reading stops at the item that contains it.
    Fault(Fault),
}

/// An item that is truncated at the end of the input.
#[derive(Clone, Copy, Debug, PartialEq, Eq)]
pub struct Cut {
    /// The offset of the item.
    pub at: usize,
    /// The kind of item, such as `frame` or `capsule`.
    pub item: &'static str,
    /// The least number of bytes that are missing.
    pub missing: u64,
}

/// The first error.
#[derive(Clone, Copy, Debug, PartialEq, Eq)]
pub struct Fault {
    /// The offset of the item with the error.
    pub at: usize,
    /// The error code.
    pub code: FaultCode,
    /// The reason, as one sentence that cites the section of the standard.
    pub why: &'static str,
    /// The least number of bytes that are missing if the stream ends within the item; otherwise
    /// 0.
    pub missing: u64,
}

/// The error code of a fault.
#[derive(Clone, Copy, Debug, PartialEq, Eq)]
pub enum FaultCode {
    /// A code that the library reports.
    Library(ErrorCode),
    /// `QPACK_ENCODER_STREAM_ERROR` (RFC 9204, section 6).
    EncoderStream,
    /// `QPACK_DECODER_STREAM_ERROR` (RFC 9204, section 6).
    DecoderStream,
}

impl FaultCode {
    /// Returns the code, by which it has a number and a name.
    pub fn code(self) -> Code
        ensures { result ≡ fault_number self }
    {
        match self {
            FaultCode::Library(code) => Code::from(code),
            FaultCode::EncoderStream => Code::QPACK_ENCODER_STREAM_ERROR,
            FaultCode::DecoderStream => Code::QPACK_DECODER_STREAM_ERROR,
        }
    }
}

/// A protocol violation that does not stop reading, or a hint.
#[derive(Clone, Copy, Debug, PartialEq, Eq)]
pub struct Warning {
    /// The offset of the item.
    pub at: usize,
    /// The index of the field line within the item, from 0, if the warning is about one.
    pub line: Option<usize>,
    /// The rule that is broken.
    pub rule: Rule,
}
