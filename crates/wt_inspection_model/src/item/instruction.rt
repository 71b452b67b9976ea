//! Instructions of QPACK's streams.
ghost use Rattle.std.specs.Prelude.{◌≡◌};
ghost use Rattle.wt_inspection_model.specs.InstructionNames.{instruction_text};

use crate::item::fields::Line;

/// An instruction on an encoder stream (RFC 9204, section 4.3) or on a decoder stream (RFC 9204,
/// section 4.4).
#[derive(Drop)]
pub enum Instruction {
    /// Set Dynamic Table Capacity: the capacity in bytes (RFC 9204, section 4.3.1).
    SetCapacity(u64),
    /// Insert with Name Reference: the index of an entry of the static table, and a line with its
    /// name and the inserted value (RFC 9204, section 4.3.2).
    InsertStatic(u64, Line),
    /// Insert with Name Reference: a line with the inserted value, whose name is that of an entry of
    /// the dynamic table (RFC 9204, section 4.3.2). Its index 0 is the latest entry.
    InsertDynamic(Line),
    /// Insert with Literal Name: the inserted line (RFC 9204, section 4.3.3).
    InsertLiteral(Line),
    /// Duplicate: a line that is an entry of the dynamic table (RFC 9204, section 4.3.4). Its index
    /// 0 is the latest entry.
    Duplicate(Line),
    /// Section Acknowledgment: the ID of a stream (RFC 9204, section 4.4.1).
    AcknowledgeSection(u64),
    /// Stream Cancellation: the ID of a stream (RFC 9204, section 4.4.2).
    CancelStream(u64),
    /// Insert Count Increment: a number of insertions (RFC 9204, section 4.4.3).
    IncrementCount(u64),
}

impl Instruction {
    /// Returns the name of the instruction, as RFC 9204 has it.
    pub fn name(&self) -> &'static str
        ensures { result.now ≡ instruction_text self.now }
    {
        match self {
            Instruction::SetCapacity(_) => "Set Dynamic Table Capacity",
            Instruction::InsertStatic(_, _) => "Insert with Name Reference",
            Instruction::InsertDynamic(_) => "Insert with Name Reference",
            Instruction::InsertLiteral(_) => "Insert with Literal Name",
            Instruction::Duplicate(_) => "Duplicate",
            Instruction::AcknowledgeSection(_) => "Section Acknowledgment",
            Instruction::CancelStream(_) => "Stream Cancellation",
            Instruction::IncrementCount(_) => "Insert Count Increment",
        }
    }
}
