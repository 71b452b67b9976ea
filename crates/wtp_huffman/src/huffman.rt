//! The Huffman code for header strings (RFC 7541, section 5.2 and Appendix B).
//!
//! An encoded text is the concatenation of the code words of its bytes, padded with ones to a whole
//! byte. [`decode`] rejects everything else: other padding, eight or more bits of padding, and the
//! code word of EOS, the end of the string.
ghost use Rattle.std.specs.Prelude.{◌≡◌};
ghost use Rattle.wtp_huffman.specs.declared.huffman.HuffmanError.TheVariants.{Memory};

use std::alloc::{AllocError, AllocFailed};

mod codes;
mod decoding;
mod encoding;
mod pairs;
mod rows;
mod short;

pub use decoding::{append_decoded, decode, decode_into};
pub use encoding::{append, encode, encoded_len};

/// The reason why a text was not decoded.
#[derive(Clone, Copy, Debug, PartialEq, Eq, thiserror::Error)]
pub enum HuffmanError {
    /// The bytes are not code words followed by fewer than eight one bits.
    #[error("invalid Huffman text")]
    Invalid,
    /// Memory allocation failed.
    #[error("no memory")]
    Memory,
}

impl From<AllocError> for HuffmanError {
    ghost from_gives = { λ _ e. e ≡ Memory };

    fn from(_e: AllocError) -> HuffmanError {
        HuffmanError::Memory
    }
}

impl<T: Drop> From<AllocFailed<T>> for HuffmanError {
    ghost from_gives = { λ _ e. e ≡ Memory };

    fn from(_e: AllocFailed<T>) -> HuffmanError {
        HuffmanError::Memory
    }
}
