//! The Huffman code for header strings (RFC 7541, section 5.2 and Appendix B).

pub use wtp_huffman::huffman::{HuffmanError, decode, encode, encoded_len};
