//! What the tests share: encoder streams that are read in pieces, and the names of faults.
use std::alloc::Global;
use std::process::Abort;
use wtp_dynamic::answer::{Answer, decode};
use wtp_dynamic::error::{EncoderStreamError, SectionError};
use wtp_dynamic::stream::EncoderStream;
use wtp_dynamic::table::{DynamicTable, Entry};

/// A name and a value.
pub(crate) type Field = (&'static [u8], &'static [u8]);

/// The name of a fault of an encoder stream.
pub(crate) fn stream_fault(fault: EncoderStreamError) -> &'static str {
    match fault {
        EncoderStreamError::IntegerOverflow => "IntegerOverflow",
        EncoderStreamError::InstructionTooLong => "InstructionTooLong",
        EncoderStreamError::InvalidString => "InvalidString",
        EncoderStreamError::IndexNotFound => "IndexNotFound",
        EncoderStreamError::CapacityAboveLimit => "CapacityAboveLimit",
        EncoderStreamError::EntryTooLarge => "EntryTooLarge",
        EncoderStreamError::EntryNotFound => "EntryNotFound",
        EncoderStreamError::TooManyInsertions => "TooManyInsertions",
        EncoderStreamError::Memory => "Memory",
    }
}

/// The name of a fault of a section.
pub(crate) fn section_fault(fault: SectionError) -> &'static str {
    match fault {
        SectionError::UnexpectedEnd => "UnexpectedEnd",
        SectionError::IntegerOverflow => "IntegerOverflow",
        SectionError::InvalidString => "InvalidString",
        SectionError::IndexNotFound => "IndexNotFound",
        SectionError::EntryNotFound => "EntryNotFound",
        SectionError::InvalidInsertCount => "InvalidInsertCount",
        SectionError::NegativeBase => "NegativeBase",
        SectionError::TooManyBlocked => "TooManyBlocked",
        SectionError::Memory => "Memory",
    }
}

/// Reads a stream in two pieces. Returns what is made of it, and the name of its fault, if any.
pub(crate) fn read_cut(
    alloc: Global,
    limit: u64,
    bytes: &[u8],
    cut: usize,
) -> (EncoderStream, &'static str) {
    let (first, second) = bytes.split_at(cut.min(bytes.len()));
    let mut stream = EncoderStream::new(alloc, limit.min(1 << 32));
    let fault = match stream.read(alloc, first) {
        Ok(()) => match stream.read(alloc, second) {
            Ok(()) => "",
            Err(fault) => stream_fault(fault),
        },
        Err(fault) => stream_fault(fault),
    };
    (stream, fault)
}

/// Asserts that the entries of the table, the oldest first, are these.
pub(crate) fn assert_table(rt: &impl Abort, table: &DynamicTable, wanted: &[Field], case: &str) {
    let count = table.insert_count();
    assert!(rt; count >= wanted.len() as u64, "{case}: {count} entries");
    let first = count - wanted.len() as u64;
    if first > 0 {
        assert!(rt; table.get(first - 1).is_none(), "{case}: one entry more");
    }
    for (k, entry) in wanted.iter().enumerate() {
        assert!(rt;
            table.get(first + k as u64) == Some(*entry),
            "{case}: entry {k}"
        );
    }
}

/// Whether these are the fields, in their order.
fn are_fields(fields: &[Entry], wanted: &[Field]) -> bool {
    fields.len() == wanted.len()
        && fields
            .iter()
            .zip(wanted)
            .all(|(field, known)| (field.name(), field.value()) == *known)
}

/// Asserts that a section is decoded to these fields.
pub(crate) fn assert_fields(
    rt: &impl Abort,
    alloc: Global,
    table: &DynamicTable,
    section: &[u8],
    wanted: &[Field],
    case: &str,
) {
    match decode(alloc, table, section) {
        Ok(Answer::Fields(fields)) => {
            assert!(rt; are_fields(fields.as_slice(), wanted), "{case}: its fields");
        }
        Ok(Answer::Blocked(count)) => panic!(rt; "{case}: blocked to {count}"),
        Err(fault) => panic!(rt; "{case}: {}", section_fault(fault)),
    }
}
