//! Laws of the definitions and types that the contracts of this crate cite. The contract of each
//! function states one law.

mod fields;
mod headers;

pub use fields::{maps_of_lists, sent_lists};
pub use headers::{header_maps, header_payloads, reserved_headers};
pub use wtp_huffman::laws::{huffman_texts, huffman_words};
pub use wtp_qpack::laws::{
    encode_and_decode, field_lines, field_maps, field_sections, lines_again, lines_of_texts,
    maps_of_lines, no_shorter_lines, prefixed_integers, shortest_lines, string_literals,
};
