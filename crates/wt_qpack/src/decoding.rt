//! The decoder's commands.

ghost use Rattle.std.specs.Prelude.{◌≡◌, ◌++◌, [], Result, OnOk, string_bytes, codes};
ghost use Rattle.wtp_dynamic.specs.declared.error.EncoderStreamError.{EncoderStreamError};
ghost use Rattle.wtp_dynamic.specs.Table.{insert_count};
ghost use Rattle.wtp_dynamic_decoder.specs.Decoder.{PieceRead, held_count, told, due_increment, due_cancellation, incremented, cancelled};
ghost use Rattle.wt_qpack.specs.Commands.{decoder_of};
ghost use Rattle.wt_qpack.specs.Lines.{field_text, told_line, read_line};

use crate::command::Settings;
use crate::text::{add_bytes, add_fault};
use std::alloc::{AllocError, Global};
use wtp_dynamic::error::SectionError;
use wtp_dynamic::table::DynamicTable;
use wtp_dynamic_decoder::decoder::{Opened, QpackDecoder};
use wtp_dynamic_decoder::lines::{LineRoom, SectionLines};
use wtp_qpack::qpack::FieldLine;

/// A decoder.
#[derive(Drop)]
pub struct Decoding {
    alloc: Global,
    decoder: QpackDecoder,
    room: LineRoom,
}

/// Appends a field.
fn add_field(
    out: &mut String,
    alloc: Global,
    line: FieldLine<'_>,
    is_never_indexed: bool,
) -> Result<(), AllocError>
    ensures { OnOk result (string_bytes out.new
        ≡ string_bytes out.old ++ field_text line.entry.name.now line.entry.value.now is_never_indexed) }
{
    write!(out, " ")?;
    add_bytes(out, alloc, line.name)?;
    write!(out, ":")?;
    add_bytes(out, alloc, line.value)?;
    if is_never_indexed {
        write!(out, ":n")?;
    }
    Ok(())
}

/// Appends the lines of a section.
///
/// # Errors
///
/// The fault of a line, or that allocation failed.
fn add_lines<'a>(
    out: &mut String,
    alloc: Global,
    mut lines: SectionLines<'a>,
    table: &'a DynamicTable,
    room: &mut LineRoom,
) -> Result<(), SectionError> {
    write!(out, "lines")?;
    for _line in 0..u64::MAX {
        let is_never_indexed = lines.is_never_indexed();
        match lines.next_line(table, room) {
            Some(Ok(line)) => add_field(out, alloc, line, is_never_indexed)?,
            Some(Err(fault)) => return Err(fault),
            None => break,
        }
    }
    Ok(())
}

impl Decoding {
    /// Creates a decoder without a table.
    pub fn new(alloc: Global) -> Self
        ensures { result.decoder ≡ decoder_of 0 0 }
    {
        Decoding {
            alloc,
            decoder: QpackDecoder::new(alloc, 0, 0),
            room: LineRoom::new(alloc),
        }
    }

    /// Begins another decoder.
    pub fn begin(&mut self, settings: Settings, out: &mut String) -> Result<(), AllocError>
        ensures decoder { self.new.decoder ≡ decoder_of settings.limit settings.most }
        ensures line { OnOk result (string_bytes out.new ≡ string_bytes out.old ++ codes "decoder\n") }
    {
        self.decoder = QpackDecoder::new(self.alloc, settings.limit, settings.most);
        writeln!(out, "decoder")
    }

    /// Reads bytes of the encoder stream.
    pub fn read_instructions(&mut self, bytes: &[u8], out: &mut String) -> Result<(), AllocError>
        ensures { OnOk result ((read : Result (Unit {0}) EncoderStreamError)
            × PieceRead self.old.decoder.progress bytes.now self.old.decoder self.new.decoder read
            × (string_bytes out.new ≡ string_bytes out.old ++ read_line read
            (insert_count self.new.decoder.table) (held_count self.new.decoder.progress))) }
    {
        match self.decoder.read_encoder_stream(bytes) {
            Ok(()) => {
                let count = self.decoder.insert_count();
                let held = self.decoder.held();
                writeln!(out, "count {count} {held}")
            }
            Err(fault) => add_fault(out, fault.code()),
        }
    }

    /// Reads a section of a stream.
    pub fn read_section(
        &mut self,
        stream: u64,
        section: &[u8],
        out: &mut String,
    ) -> Result<(), AllocError>
        ensures { self.new.decoder.table ≡ self.old.decoder.table }
    {
        let lines = match self.decoder.open(stream, section) {
            Ok(Opened::Lines(lines)) => lines,
            Ok(Opened::Blocked(required)) => return writeln!(out, "blocked {required}"),
            Err(fault) => return add_fault(out, fault.code()),
        };
        let required = lines.required().min(self.decoder.insert_count());
        let mut text = String::new(self.alloc);
        if let Err(fault) = add_lines(
            &mut text,
            self.alloc,
            lines,
            self.decoder.table(),
            &mut self.room,
        ) {
            return add_fault(out, fault.code());
        }
        out.push_str(text.as_str())?;
        let mut told = Vec::new(self.alloc);
        self.decoder.acknowledge(stream, required, &mut told)?;
        write!(out, " | ")?;
        add_bytes(out, self.alloc, told.as_slice())?;
        writeln!(out, "")
    }

    /// Tells the encoder of insertions.
    pub fn increment(&mut self, out: &mut String) -> Result<(), AllocError>
        ensures decoder { OnOk result (self.new.decoder ≡ incremented self.old.decoder) }
        ensures line { OnOk result (string_bytes out.new
            ≡ string_bytes out.old ++ told_line (told [] (due_increment self.old.decoder))) }
    {
        let mut told = Vec::new(self.alloc);
        self.decoder.increment(&mut told)?;
        add_told(out, self.alloc, told.as_slice())
    }

    /// Reads a stream no longer.
    pub fn cancel(&mut self, stream: u64, out: &mut String) -> Result<(), AllocError>
        ensures decoder { OnOk result (self.new.decoder ≡ cancelled stream self.old.decoder) }
        ensures line { OnOk result (string_bytes out.new
            ≡ string_bytes out.old ++ told_line (told [] (due_cancellation stream self.old.decoder))) }
    {
        let mut told = Vec::new(self.alloc);
        self.decoder.cancel(stream, &mut told)?;
        add_told(out, self.alloc, told.as_slice())
    }
}

/// Appends the line of what is told to the encoder.
fn add_told(out: &mut String, alloc: Global, told: &[u8]) -> Result<(), AllocError>
    ensures { OnOk result (string_bytes out.new ≡ string_bytes out.old ++ told_line told.now) }
{
    write!(out, "told ")?;
    add_bytes(out, alloc, told)?;
    writeln!(out, "")
}
