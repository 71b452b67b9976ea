//! The dynamic table of QPACK (RFC 9204): the table, the instructions of the encoder and decoder
//! streams, and the field sections that refer to it.
#![tactic(auto)]

pub mod acknowledgment;
pub mod answer;
mod bits;
pub mod error;
pub mod front;
pub mod insert_count;
pub mod instruction;
pub mod laws;
pub mod ledger;
pub mod section;
pub mod stored;
pub mod stream;
pub mod table;
