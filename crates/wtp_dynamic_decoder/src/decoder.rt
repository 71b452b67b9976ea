//! The decoder: the encoder stream, sections, and what is due on the decoder stream.

ghost use Rattle.std.specs.Prelude.{◌≡◌, ℕ, ◌^◌, ◌<◌, ◌≤◌, List, [], Result, Err, MatchResult, length, filter};
ghost use Rattle.std.specs.Vec.{vec_len, vec_capacity};
ghost use Rattle.wtp_dynamic.specs.Table.{empty_table, insert_count};
ghost use Rattle.wtp_dynamic.specs.Front.{most_bytes};
ghost use Rattle.wtp_dynamic.specs.Stream.{HasFault, HasNoText};
ghost use Rattle.wtp_dynamic.specs.declared.error.EncoderStreamError.{EncoderStreamError};
ghost use Rattle.wtp_dynamic_decoder.specs.Decoder.{Decoder, Runs, held_count, PieceRead, waits, is_other, Refuses, due_section, due_increment, due_cancellation, acknowledged, incremented, cancelled, Tells};
ghost use Rattle.wtp_dynamic_decoder.specs.Opening.{OpensAs};

pub mod stored;

use crate::lines::SectionLines;
use std::alloc::{AllocError, Global};
use std::marker::Model;
use wtp_dynamic::acknowledgment::{self, Acknowledgment};
use wtp_dynamic::error::{EncoderStreamError, SectionError};
use wtp_dynamic::section;
use wtp_dynamic::stream::EncoderStream;
use wtp_dynamic::table::DynamicTable;

/// A stream with a section that needs more insertions.
#[derive(Clone, Copy)]
pub struct Waiting {
    /// The stream.
    pub stream: u64,
    /// The Required Insert Count of the section.
    pub required: u64,
}

/// A section that was opened.
#[derive(Drop)]
pub enum Opened<'a> {
    /// Its lines can be read.
    Lines(SectionLines<'a>),
    /// It needs so many insertions, and there were fewer.
    Blocked(u64),
}

/// Keeps the streams other than this one that wait for more than so many insertions.
fn keep_waiting(waiting: &mut Vec<Waiting>, stream: u64, count: u64)
    ensures items { waiting.new.items ≡ filter (waits stream count) waiting.old.items }
    ensures bound { vec_len waiting.new ≤ vec_len waiting.old }
    ensures capacity { vec_capacity waiting.new ≡ vec_capacity waiting.old }
{
    waiting.retain(|waiting| waiting.required > count && waiting.stream != stream);
}

/// Keeps the streams other than this one.
fn keep_others(waiting: &mut Vec<Waiting>, stream: u64)
    ensures items { waiting.new.items ≡ filter (is_other stream) waiting.old.items }
    ensures bound { vec_len waiting.new ≤ vec_len waiting.old }
{
    waiting.retain(|waiting| waiting.stream != stream);
}

/// Counts the streams other than this one that wait for more than so many insertions.
fn count_waiting(waiting: &[Waiting], stream: u64, count: u64) -> usize
    ensures { result ≡ length (filter (waits stream count) waiting.now) }
{
    let mut others = 0;
    for one in waiting {
        if one.required > count && one.stream != stream {
            others += 1;
        }
    }
    others
}

/// The decoder of a connection: the dynamic table, the streams with a section that waits for
/// insertions, and what the encoder was told.
///
/// The caller keeps the bytes of a section that waits, and opens it again once
/// [`insert_count`](QpackDecoder::insert_count) has reached its count.
#[derive(Drop)]
pub struct QpackDecoder {
    alloc: Global,
    encoder: EncoderStream,
    fault: Option<EncoderStreamError>,
    known: u64,
    waiting: Vec<Waiting>,
    most: u64,
}

// Contracts treat the decoder as its table, the encoder stream, the Known Received Count, the
// streams that wait and how many may.
impl Model for QpackDecoder {
    ghost use Rattle.std.specs.Prelude.{◌≤◌, length};
    ghost use Rattle.wtp_dynamic.specs.Table.{insert_count};
    ghost use Rattle.wtp_dynamic_decoder.specs.Decoder.{Decoder, progress_of};

    ghost Value = { Decoder };

    ghost view = { λ d. record {
      table = d.encoder.0;
      progress = progress_of d.fault d.encoder.1;
      known = d.known;
      waiting = d.waiting.items;
      most = d.most;
    } };

    ghost invariant = { λ d. (d.known ≤ insert_count d.encoder.0)
        × (length d.waiting.items ≤ d.most) };
}

impl QpackDecoder {
    /// Creates a decoder with an empty table. `limit` and `most` are those that its settings
    /// announce: the largest capacity of the table, in bytes, and how many streams may wait.
    /// Nothing is allocated.
    pub fn new(alloc: Global, limit: u64, most: u64) -> Self
        requires { limit < 2 ^ 60 }
        ensures { result ≡ record {
          table = empty_table limit;
          progress = Runs [];
          known = 0;
          waiting = [];
          most = most;
        } }
    {
        QpackDecoder {
            alloc,
            encoder: EncoderStream::new(alloc, limit),
            fault: None,
            known: 0,
            waiting: Vec::new(alloc),
            most,
        }
    }

    /// Returns the dynamic table.
    pub fn table(&self) -> &DynamicTable
        ensures { result.now ≡ self.now.table }
    {
        self.encoder.table()
    }

    /// Returns how many entries have ever been inserted.
    pub fn insert_count(&self) -> u64
        ensures { result ≡ insert_count self.now.table }
    {
        self.encoder.table().insert_count()
    }

    /// Returns how many bytes of a cut instruction are held: fewer than `4 * limit + 32`, and none
    /// after an error of the stream.
    pub fn held(&self) -> usize
        ensures count { result ≡ held_count self.now.progress }
        ensures few { result < most_bytes self.now.table.limit }
    {
        match self.fault {
            None => self.encoder.held(),
            Some(_) => 0,
        }
    }

    /// Reads the next piece of the encoder stream: does the instructions that are now complete.
    ///
    /// Returns the fault of the stream, or [`EncoderStreamError::Memory`] if allocation failed for
    /// Huffman text, for an entry that may be inserted, for the bytes of a cut instruction, or to join
    /// `piece` to such bytes; any other instruction at fault is reported however little memory there
    /// is. The table then is what the instructions before it made, and the stream has ended: every
    /// later call returns the same error and does nothing.
    #[tactic(auto, using(crate::proofs::Grown::stands_grow, crate::proofs::Grown::reaches_grow))]
    pub fn read_encoder_stream(&mut self, piece: &[u8]) -> Result<(), EncoderStreamError>
        ensures { PieceRead self.old.progress piece.now self.old self.new result }
    {
        if let Some(fault) = self.fault {
            return Err(fault);
        }
        match self.encoder.read(self.alloc, piece) {
            Ok(()) => Ok(()),
            Err(fault) => {
                self.fault = Some(fault);
                Err(fault)
            }
        }
    }

    /// Opens a section of a stream. Its lines can be read if its Required Insert Count is at most
    /// the insertions so far. Otherwise the stream waits.
    ///
    /// Returns the fault of the prefix, or [`SectionError::TooManyBlocked`] if as many other
    /// streams wait as may. Returns [`SectionError::Memory`] if the stream has to wait, it may, and
    /// allocation failed; nothing has changed then.
    pub fn open<'a>(&mut self, stream: u64, section: &'a [u8]) -> Result<Opened<'a>, SectionError>
        ensures { MatchResult result (OpensAs stream section.now self.old self.new)
            (Refuses stream section.now self.old self.new) }
    {
        let prefix = section::read_prefix(self.encoder.table(), section)?;
        let count = self.encoder.table().insert_count();
        if !section::is_blocked(self.encoder.table(), &prefix) {
            keep_waiting(&mut self.waiting, stream, count);
            return Ok(Opened::Lines(SectionLines::new(prefix)));
        }
        if count_waiting(self.waiting.as_slice(), stream, count) as u64 >= self.most {
            keep_waiting(&mut self.waiting, stream, count);
            return Err(SectionError::TooManyBlocked);
        }
        self.waiting.reserve(1)?;
        keep_waiting(&mut self.waiting, stream, count);
        self.waiting.push_reserved(Waiting {
            stream,
            required: prefix.required,
        });
        Ok(Opened::Blocked(prefix.required))
    }

    /// A section of a stream was read to its end: appends its acknowledgment, if its Required
    /// Insert Count is not 0. To be called once for each such section, in the order of the stream.
    ///
    /// Returns [`AllocError`] if the count is not 0 and allocation failed; nothing has changed then.
    pub fn acknowledge(
        &mut self,
        stream: u64,
        required: u64,
        out: &mut Vec<u8>,
    ) -> Result<(), AllocError>
        requires { required ≤ insert_count self.old.table }
        ensures { Tells (due_section stream required) (acknowledged required self.old)
            self.old self.new out.old.items out.new.items result }
    {
        if required == 0 {
            return Ok(());
        }
        acknowledgment::write(self.alloc, out, Acknowledgment::Section(stream))?;
        self.known = self.known.max(required);
        Ok(())
    }

    /// Appends how many insertions the encoder was not told of yet, if there are any.
    ///
    /// Returns [`AllocError`] if there are any and allocation failed; nothing has changed then.
    pub fn increment(&mut self, out: &mut Vec<u8>) -> Result<(), AllocError>
        ensures { Tells (due_increment self.old) (incremented self.old)
            self.old self.new out.old.items out.new.items result }
    {
        let count = self.encoder.table().insert_count();
        if count == self.known {
            return Ok(());
        }
        acknowledgment::write(
            self.alloc,
            out,
            Acknowledgment::Increment(count - self.known),
        )?;
        self.known = count;
        Ok(())
    }

    /// A stream was reset, or is no longer read: it no longer waits. Appends its cancellation,
    /// unless the table can have no entries.
    ///
    /// Returns [`AllocError`] if a cancellation is due and allocation failed; nothing has changed
    /// then.
    pub fn cancel(&mut self, stream: u64, out: &mut Vec<u8>) -> Result<(), AllocError>
        ensures { Tells (due_cancellation stream self.old) (cancelled stream self.old)
            self.old self.new out.old.items out.new.items result }
    {
        if self.encoder.table().limit() > 0 {
            acknowledgment::write(self.alloc, out, Acknowledgment::Cancellation(stream))?;
        }
        keep_others(&mut self.waiting, stream);
        Ok(())
    }
}

/// An instruction at fault is reported as such: if no bytes of one are held, a piece that begins with
/// it returns its fault and never [`EncoderStreamError::Memory`], unless it has Huffman text to decode
/// (RFC 9204, section 6).
pub fn faults_are_reported()
    ensures { (piece : List ℕ) (old new : Decoder) (result : Result (Unit {0}) EncoderStreamError)
        (e : EncoderStreamError) → PieceRead (Runs []) piece old new result
        → HasFault old.table piece e → HasNoText old.table piece → result ≡ Err e }
{}
