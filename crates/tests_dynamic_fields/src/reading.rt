//! What the tests share: decoders of encoder streams, and sections that are read past refused memory.
use std::alloc::Global;
use std::process::Abort;
use wtp_dynamic::error::SectionError;
use wtp_dynamic_decoder::decoder::QpackDecoder;
use wtp_dynamic_fields::section::{Decoded, TableSectionError, decode};
use wtp_fields::fields::FieldList;

/// A name and a value.
pub(crate) type Field = (&'static [u8], &'static [u8]);

/// The largest capacity of the tables.
pub(crate) const LIMIT: u64 = 4096;

/// Returns a decoder that has read an encoder stream. It is made once more where memory was refused.
pub(crate) fn decoder_of(rt: &impl Abort, alloc: Global, most: u64, stream: &[u8]) -> QpackDecoder {
    let mut decoder = QpackDecoder::new(alloc, LIMIT, most);
    if decoder.read_encoder_stream(stream).is_ok() {
        return decoder;
    }
    let mut again = QpackDecoder::new(alloc, LIMIT, most);
    assert!(rt;
        again.read_encoder_stream(stream).is_ok(),
        "an encoder stream"
    );
    again
}

/// Decodes a section, and once more where memory was refused.
pub(crate) fn decode_past_refusal(
    alloc: Global,
    decoder: &mut QpackDecoder,
    stream: u64,
    section: &[u8],
    limit: u64,
) -> Result<Decoded, TableSectionError> {
    match decode(alloc, decoder, stream, section, limit) {
        Err(TableSectionError::Memory) => decode(alloc, decoder, stream, section, limit),
        result => result,
    }
}

/// Asserts that a list has these fields and no other, in this order.
pub(crate) fn assert_list(rt: &impl Abort, list: &FieldList, fields: &[Field], case: &str) {
    assert!(rt; list.len() == fields.len(), "{case}: how many fields");
    for (line, field) in list.iter().zip(fields) {
        assert!(rt; (line.name, line.value) == *field, "{case}: a field");
    }
}

/// The name of an error.
pub(crate) fn name_of(error: TableSectionError) -> &'static str {
    match error {
        TableSectionError::Section(fault) => fault_name(fault),
        TableSectionError::TooLarge => "TooLarge",
        TableSectionError::Memory => "Memory",
    }
}

/// The name of a fault of a section.
fn fault_name(fault: SectionError) -> &'static str {
    match fault {
        SectionError::UnexpectedEnd => "UnexpectedEnd",
        SectionError::IntegerOverflow => "IntegerOverflow",
        SectionError::InvalidString => "InvalidString",
        SectionError::IndexNotFound => "IndexNotFound",
        SectionError::EntryNotFound => "EntryNotFound",
        SectionError::InvalidInsertCount => "InvalidInsertCount",
        SectionError::NegativeBase => "NegativeBase",
        SectionError::TooManyBlocked => "TooManyBlocked",
        SectionError::Memory => "Memory in a section",
    }
}
