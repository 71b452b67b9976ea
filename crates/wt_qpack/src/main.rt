//! Runs an encoder and a decoder of QPACK by commands, which are read from standard input: one a
//! line, each with one line of output, so that another program can talk to it through two pipes.
//!
//! Numbers are decimal, and bytes are hexadecimal; no bytes are `-`.
//!
//! - `encoder LIMIT MOST LARGEST RESERVED UNACKNOWLEDGED`: begins an encoder, by the decoder's
//!   settings and a policy. Output: `encoder`.
//! - `capacity N`: sets the capacity of its table. Output: `set INSTRUCTION`, or `unset`.
//! - `encode STREAM FIELD ..`: encodes a section. A field is `NAME:VALUE`, or `NAME:VALUE:I`, where
//!   `I` is `i` for a field that is inserted, `w` for one that is not, and `n` for one that is never
//!   indexed. Output: `sent INSTRUCTIONS SECTION`.
//! - `list FIELD ..`: encodes a section as a list of fields does, without the dynamic table. Output:
//!   `section SECTION`.
//! - `hear BYTES`: the next bytes of the decoder stream. Output: `known N`, which is the Known
//!   Received Count.
//! - `decoder LIMIT MOST`: begins a decoder, by its settings. Output: `decoder`.
//! - `instructions BYTES`: the next bytes of the encoder stream. Output: `count N HELD`: how many
//!   entries were inserted, and how many bytes of a cut instruction are held.
//! - `section STREAM BYTES`: a section of a stream. Output: `blocked N`, where it needs so many
//!   insertions, and is to be passed again; or `lines FIELD .. | TOLD`, where a field that is never
//!   indexed ends with `:n`, and `TOLD` is what the decoder writes to its stream.
//! - `increment`: Output: `told BYTES`.
//! - `cancel STREAM`: the stream is read no longer. Output: `told BYTES`.
//!
//! In place of any output there may be `fault CODE`.
#![tactic(auto)]

mod command;
mod decoding;
mod encoding;
mod listing;
mod text;

use crate::command::Command;
use crate::decoding::Decoding;
use crate::encoding::Encoding;
use crate::listing::add_list;
use anyhow::{Context, Result};
use std::alloc::Global;
use std::io::{BufRead, BufReader, Write};

/// Runs a command, and appends its line of output.
fn run(
    alloc: Global,
    encoding: &mut Encoding,
    decoding: &mut Decoding,
    command: Command,
    out: &mut String,
) -> Result<()> {
    match command {
        Command::Encoder(settings, policy) => encoding.begin(settings, policy, out)?,
        Command::Capacity(capacity) => encoding.set_capacity(capacity, out)?,
        Command::Encode(stream, fields) => encoding.encode(stream, fields.as_slice(), out)?,
        Command::List(fields) => add_list(alloc, fields.as_slice(), out)?,
        Command::Hear(bytes) => encoding.hear(bytes.as_slice(), out)?,
        Command::Decoder(settings) => decoding.begin(settings, out)?,
        Command::Instructions(bytes) => decoding.read_instructions(bytes.as_slice(), out)?,
        Command::Section(stream, bytes) => decoding.read_section(stream, bytes.as_slice(), out)?,
        Command::Increment => decoding.increment(out)?,
        Command::Cancel(stream) => decoding.cancel(stream, out)?,
    }
    Ok(())
}

fn main(rt: HostRuntime) -> Result<()> {
    let alloc = rt.alloc();
    let mut output = rt.stdout();
    let mut encoding = Encoding::new(alloc);
    let mut decoding = Decoding::new(alloc);
    for line in BufReader::new(alloc, rt.reader())?.lines(alloc) {
        let line = line?;
        let command = Command::parse(alloc, line.as_str()).context(format_args!(
            "in the line {line:?}"
        ))?;
        let mut text = String::new(alloc);
        run(alloc, &mut encoding, &mut decoding, command, &mut text)?;
        output.write_all(text.as_bytes())?;
        output.flush()?;
    }
    Ok(())
}
