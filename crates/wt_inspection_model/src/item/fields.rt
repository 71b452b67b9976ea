//! Field sections.

use wtp_dynamic::error::SectionError;

/// A field section: its lines up to the first that cannot be decoded (RFC 9204, section 4.5).
#[derive(Drop)]
pub struct FieldSection {
    /// The encoded Required Insert Count, which is 0 for a section that does not need the dynamic
    /// table (RFC 9204, section 4.5.1.1). `None` if it cannot be decoded.
    pub insert_count: Option<u64>,
    /// The field lines in order. Names may repeat.
    pub lines: Vec<Line>,
    /// What is missing of the lines or wrong with them, if something is.
    pub fault: Option<SectionFault>,
}

/// A field line. The name and value need not be UTF-8.
#[derive(Drop)]
pub struct Line {
    /// The name. It is empty if it is unknown.
    pub name: Vec<u8>,
    /// The value. It is empty if it is unknown.
    pub value: Vec<u8>,
    /// What is unknown of the line, because an entry of the dynamic table has it.
    pub unknown: Option<Unknown>,
}

/// What is unknown of a line, and the entry of the dynamic table that has it.
#[derive(Clone, Copy, Debug, PartialEq, Eq)]
pub enum Unknown {
    /// The name and the value (RFC 9204, sections 4.5.2 and 4.5.3).
    Field(Index),
    /// The name (RFC 9204, sections 4.5.4 and 4.5.5).
    Name(Index),
}

/// The index of an entry of the dynamic table, as a line has it.
#[derive(Clone, Copy, Debug, PartialEq, Eq)]
pub enum Index {
    /// Counted back from the Base: 0 is the entry before it (RFC 9204, section 3.2.5).
    Relative(u64),
    /// Counted on from the Base: 0 is the entry at it (RFC 9204, section 3.2.6).
    PostBase(u64),
}

/// What is missing of the lines of a section, or wrong with them.
#[derive(Clone, Copy, Debug)]
pub enum SectionFault {
    /// The section needs the dynamic table, and no encoder stream is known.
    NeedsDynamicTable,
    /// The section needs so many insertions, and the encoder stream has only so many.
    NeedsInsertions(u64, u64),
    /// The section is malformed. Its lines end before the first that cannot be decoded.
    Malformed(SectionError),
}
