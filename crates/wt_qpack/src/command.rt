//! The commands.

ghost use Rattle.std.specs.Prelude.{◌<◌, ◌^◌};

use anyhow::{Context, Result, bail};
use std::alloc::Global;
use wtp_dynamic_encoder::proposal::{Indexing, Policy};

/// The largest capacity that a table may have, in bytes.
const MOST_LIMIT: u64 = 1 << 59;

/// What the settings of a decoder announce.
#[derive(Clone, Copy)]
pub struct Settings {
    /// The largest capacity of the table, in bytes.
    pub limit: u64,
    /// How many streams may be blocked.
    pub most: u64,
    pub ghost few: { limit < 2 ^ 60 },
}

/// A field to encode.
#[derive(Drop)]
pub struct Field {
    /// The name.
    pub name: Vec<u8>,
    /// The value.
    pub value: Vec<u8>,
    /// Whether it is inserted.
    pub indexing: Indexing,
}

/// A line of the input.
#[derive(Drop)]
pub enum Command {
    /// Begins an encoder.
    Encoder(Settings, Policy),
    /// Sets the capacity of its table.
    Capacity(u64),
    /// Encodes a section of a stream.
    Encode(u64, Vec<Field>),
    /// Encodes a section as a list of fields does, without the dynamic table.
    List(Vec<Field>),
    /// Reads bytes of the decoder stream.
    Hear(Vec<u8>),
    /// Begins a decoder.
    Decoder(Settings),
    /// Reads bytes of the encoder stream.
    Instructions(Vec<u8>),
    /// Reads a section of a stream.
    Section(u64, Vec<u8>),
    /// Tells the encoder of insertions.
    Increment,
    /// A stream is read no longer.
    Cancel(u64),
}

impl Command {
    /// Reads a line.
    ///
    /// # Errors
    ///
    /// If it is no command.
    pub fn parse(alloc: Global, line: &str) -> Result<Command> {
        let (name, rest) = first_word(line);
        match name {
            "encoder" => read_encoder(rest),
            "capacity" => Ok(Command::Capacity(number(rest)?)),
            "encode" => {
                let (stream, rest) = first_word(rest);
                Ok(Command::Encode(number(stream)?, read_fields(alloc, rest)?))
            }
            "list" => Ok(Command::List(read_fields(alloc, rest)?)),
            "hear" => Ok(Command::Hear(bytes(alloc, rest)?)),
            "decoder" => {
                let (limit, most) = first_word(rest);
                Ok(Command::Decoder(read_settings(limit, most)?))
            }
            "instructions" => Ok(Command::Instructions(bytes(alloc, rest)?)),
            "section" => {
                let (stream, rest) = first_word(rest);
                Ok(Command::Section(number(stream)?, bytes(alloc, rest)?))
            }
            "increment" => Ok(Command::Increment),
            "cancel" => Ok(Command::Cancel(number(rest)?)),
            _ => bail!("no command"),
        }
    }
}

/// Returns the first word of a line, and the rest of the line.
fn first_word(line: &str) -> (&str, &str) {
    line.split_once(' ').unwrap_or((line, ""))
}

/// Reads a number.
fn number(word: &str) -> Result<u64> {
    word.parse::<u64>().context("no number")
}

/// Reads bytes.
fn bytes(alloc: Global, word: &str) -> Result<Vec<u8>> {
    if word == "-" {
        return Ok(Vec::new(alloc));
    }
    hex::decode(alloc, word).context("no bytes")
}

/// Reads settings.
fn read_settings(limit: &str, most: &str) -> Result<Settings> {
    let limit = number(limit)?;
    let most = number(most)?;
    if limit > MOST_LIMIT {
        bail!("too large a limit");
    }
    Ok(Settings { limit, most })
}

/// Reads the settings and the policy of an encoder.
fn read_encoder(rest: &str) -> Result<Command> {
    let (limit, rest) = first_word(rest);
    let (most, rest) = first_word(rest);
    let (largest, rest) = first_word(rest);
    let (reserved, unacknowledged) = first_word(rest);
    let policy = Policy {
        largest: number(largest)?,
        reserved: number(reserved)?,
        unacknowledged: number(unacknowledged)?,
    };
    Ok(Command::Encoder(read_settings(limit, most)?, policy))
}

/// Reads the fields of a section.
fn read_fields(alloc: Global, words: &str) -> Result<Vec<Field>> {
    let mut fields = Vec::new(alloc);
    for word in words.split(' ') {
        if !word.is_empty() {
            fields.push(read_field(alloc, word)?)?;
        }
    }
    Ok(fields)
}

/// Reads a field.
fn read_field(alloc: Global, word: &str) -> Result<Field> {
    let (name, rest) = word.split_once(':').context("no field")?;
    let (value, indexing) = rest.split_once(':').unwrap_or((rest, ""));
    Ok(Field {
        name: bytes(alloc, name)?,
        value: bytes(alloc, value)?,
        indexing: match indexing {
            "" => Indexing::ByPolicy,
            "i" => Indexing::Insert,
            "w" => Indexing::Without,
            "n" => Indexing::Never,
            _ => bail!("no indexing"),
        },
    })
}
