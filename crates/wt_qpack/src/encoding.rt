//! The encoder's commands.

ghost use Rattle.std.specs.Prelude.{◌≡◌, ◌++◌, ℕ, Bool, List, [], Ok, Result, OnOk, string_bytes, codes};
ghost use Rattle.wtp_dynamic.specs.declared.error.DecoderStreamError.{DecoderStreamError};
ghost use Rattle.wtp_dynamic_encoder.specs.Choosing.{default_policy};
ghost use Rattle.wtp_dynamic_encoder.specs.Encoding.{ResizesIf, Ordered, PieceRead};
ghost use Rattle.wt_qpack.specs.Commands.{encoder_of};
ghost use Rattle.wt_qpack.specs.Lines.{capacity_line, heard_line, sent_line};

use crate::command::{Field, Settings};
use crate::text::{add_bytes, add_fault};
use std::alloc::{AllocError, Global};
use wtp_dynamic_encoder::encoder::QpackEncoder;
use wtp_dynamic_encoder::proposal::{Policy, Proposal};

/// An encoder.
#[derive(Drop)]
pub struct Encoding {
    alloc: Global,
    encoder: QpackEncoder,
}

impl Encoding {
    /// Creates an encoder for a decoder without a table.
    pub fn new(alloc: Global) -> Self
        ensures { result.encoder ≡ encoder_of 0 0 default_policy }
    {
        Encoding {
            alloc,
            encoder: QpackEncoder::new(alloc, 0, 0),
        }
    }

    /// Begins another encoder.
    pub fn begin(
        &mut self,
        settings: Settings,
        policy: Policy,
        out: &mut String,
    ) -> Result<(), AllocError>
        ensures encoder { self.new.encoder ≡ encoder_of settings.limit settings.most policy }
        ensures line { OnOk result (string_bytes out.new ≡ string_bytes out.old ++ codes "encoder\n") }
    {
        self.encoder = QpackEncoder::new(self.alloc, settings.limit, settings.most);
        self.encoder.set_policy(policy);
        writeln!(out, "encoder")
    }

    /// Sets the capacity of the table.
    pub fn set_capacity(&mut self, capacity: u64, out: &mut String) -> Result<(), AllocError>
        ensures { let old = self.old.encoder in OnOk result
            ((did : Bool) × (instruction : List ℕ)
            × ResizesIf {E = Unit {0}} capacity old.ledger old.table self.new.encoder.table [] instruction
            (Ok did)
            × (string_bytes out.new ≡ string_bytes out.old ++ capacity_line did instruction)) }
    {
        let mut instruction = Vec::new(self.alloc);
        if !self.encoder.set_capacity(capacity, &mut instruction)? {
            return writeln!(out, "unset");
        }
        write!(out, "set ")?;
        add_bytes(out, self.alloc, instruction.as_slice())?;
        writeln!(out, "")
    }

    /// Encodes a section of a stream.
    pub fn encode(
        &mut self,
        stream: u64,
        fields: &[Field],
        out: &mut String,
    ) -> Result<(), AllocError>
        ensures { OnOk result ((instructions : List ℕ) × (section : List ℕ)
            × Ordered self.old.encoder.table self.new.encoder.table [] instructions
            × (self.new.encoder.policy ≡ self.old.encoder.policy)
            × (string_bytes out.new
            ≡ string_bytes out.old ++ sent_line instructions section)) }
    {
        let mut proposals = Vec::new(self.alloc);
        for field in fields {
            proposals.push(Proposal {
                name: field.name.as_slice(),
                value: field.value.as_slice(),
                indexing: field.indexing,
            })?;
        }
        let mut instructions = Vec::new(self.alloc);
        let mut section = Vec::new(self.alloc);
        self.encoder.encode(
            stream,
            proposals.as_slice(),
            &mut instructions,
            &mut section,
        )?;
        write!(out, "sent ")?;
        add_bytes(out, self.alloc, instructions.as_slice())?;
        write!(out, " ")?;
        add_bytes(out, self.alloc, section.as_slice())?;
        writeln!(out, "")
    }

    /// Reads bytes of the decoder stream.
    pub fn hear(&mut self, bytes: &[u8], out: &mut String) -> Result<(), AllocError>
        ensures { OnOk result ((heard : Result (Unit {0}) DecoderStreamError)
            × PieceRead self.old.encoder.progress bytes.now self.old.encoder self.new.encoder heard
            × (string_bytes out.new
            ≡ string_bytes out.old ++ heard_line heard self.new.encoder.ledger.0)) }
    {
        match self.encoder.read_decoder_stream(bytes) {
            Ok(()) => {
                let known = self.encoder.known();
                writeln!(out, "known {known}")
            }
            Err(fault) => add_fault(out, fault.code()),
        }
    }
}
