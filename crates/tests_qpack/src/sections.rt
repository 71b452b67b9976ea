//! Shared parts of the field section tests: calls that are repeated after a failed allocation,
//! and checks of their results.
use crate::same::assert_same;
use std::alloc::{AllocError, Global};
use std::collections::BTreeMap;
use std::fmt::Display;
use std::process::Abort;
use wtp_qpack::qpack::{Decoder, DecodingError, Encoder};

/// The fields of a section.
type Fields = BTreeMap<String, String>;

/// Decodes a section, again if allocation failed.
pub(crate) fn decode(alloc: Global, section: &[u8]) -> Result<Fields, DecodingError> {
    match Decoder::decode(alloc, section) {
        Err(DecodingError::Memory) => Decoder::decode(alloc, section),
        outcome => outcome,
    }
}

/// Encodes pairs as a section.
fn encode_once(alloc: Global, pairs: &[(&str, &str)]) -> Result<Vec<u8>, AllocError> {
    Encoder::encode(alloc, pairs.iter().copied())
}

/// Encodes pairs as a section, again if allocation failed.
pub(crate) fn encode(rt: &impl Abort, alloc: Global, pairs: &[(&str, &str)]) -> Vec<u8> {
    match encode_once(alloc, pairs) {
        Ok(section) => section,
        Err(AllocError) => encode_once(alloc, pairs).expect(rt, "memory"),
    }
}

/// Returns the concatenation of the parts.
fn join_once(alloc: Global, parts: &[&[u8]]) -> Result<Vec<u8>, AllocError> {
    let mut bytes = Vec::new(alloc);
    for part in parts {
        bytes.extend_from_slice(part)?;
    }
    Ok(bytes)
}

/// Returns the concatenation of the parts, built again if allocation failed.
pub(crate) fn join(rt: &impl Abort, alloc: Global, parts: [&[u8]; 3]) -> Vec<u8> {
    match join_once(alloc, &parts) {
        Ok(bytes) => bytes,
        Err(AllocError) => join_once(alloc, &parts).expect(rt, "memory"),
    }
}

/// Asserts that a map contains exactly these fields, in order of their names.
pub(crate) fn assert_map<S: Copy + Display + Drop>(
    rt: &impl Abort,
    fields: &Fields,
    wanted: &[(&str, &str)],
    case: S,
) {
    assert_same(rt, fields.len(), wanted.len(), case);
    for ((name, value), known) in fields.iter().zip(wanted) {
        assert_same(rt, (name.as_str(), value.as_str()), *known, case);
    }
}

/// Asserts that a section decodes to exactly these fields, in order of their names.
pub(crate) fn assert_decoded<S: Copy + Display + Drop>(
    rt: &impl Abort,
    alloc: Global,
    section: &[u8],
    wanted: &[(&str, &str)],
    case: S,
) {
    let fields = decode(alloc, section).expect(rt, "a fault");
    assert_map(rt, &fields, wanted, case);
}

/// Asserts that pairs encode to this section.
pub(crate) fn assert_encoded(
    rt: &impl Abort,
    alloc: Global,
    pairs: &[(&str, &str)],
    section: &[u8],
    case: &str,
) {
    assert_same(rt, encode(rt, alloc, pairs).as_slice(), section, case);
}

/// Asserts that the section of these pairs decodes to exactly these fields, in order of their
/// names.
pub(crate) fn assert_come_back<S: Copy + Display + Drop>(
    rt: &impl Abort,
    alloc: Global,
    pairs: &[(&str, &str)],
    wanted: &[(&str, &str)],
    case: S,
) {
    let section = encode(rt, alloc, pairs);
    assert_decoded(rt, alloc, section.as_slice(), wanted, case);
}

/// The case, a section, and its error, if it has one.
pub(crate) type FaultRow = (&'static str, &'static [u8], Option<DecodingError>);

/// Asserts the error in the section of each row.
pub(crate) fn assert_faults(rt: &impl Abort, alloc: Global, rows: &[FaultRow]) {
    for (case, section, fault) in rows {
        assert_same(rt, decode(alloc, section).err(), *fault, case);
    }
}
