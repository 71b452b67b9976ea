//! What is found next in the bytes of a stream.
ghost use Rattle.std.specs.Prelude.{◌≡◌, ◌≤◌, ℕ, false, true, [], length, Ok, None, IfOk, IfErr};
ghost use Rattle.vesgrauf.specs.Bounds.{KeepsFit};
ghost use Rattle.vesgrauf.specs.Items.{items_found, items_if};
ghost use Rattle.vesgrauf.specs.Theirs.{IsRead, with_chunk, theirs_of};
ghost use Rattle.vesgrauf.specs.Instructions.{Table, Acknowledges, HearsAndSays, table_by, is_found_piece};
ghost use Rattle.vesgrauf.specs.declared.connection.Stop.TheVariants as stop;
ghost use Rattle.vesgrauf.specs.declared.entry.Peer.TheVariants as peer;
ghost use Rattle.vesgrauf.specs.Works.{MayRead};
ghost use Rattle.vesgrauf_stream.specs.Reading.{IsUntouched, kept_of};

use crate::connection::failing::is_failure;
use crate::connection::heard::says_items;
use crate::connection::{Stop, internal};
use crate::entry::Entry;
use std::alloc::Global;
use vesgrauf_stream::bytes::Chunk;
use vesgrauf_stream::heard::Heard;
use vesgrauf_stream::reading::Found;
use wtp_core::error::Code;
use wtp_webtransport::connection::Connection as Shared;
use wtp_webtransport::fields::Fields;

impl Entry {
    // Returns what is heard next on the stream with this ID, in the bytes that are kept and those of the input. The section
    // that was read with the own table is acknowledged: without memory for it, what the section says would be lost. A piece
    // of content has none. After an error of the connection nothing is heard: the layer below would read all bytes without a
    // word.
    #[tactic(auto, using(crate::proofs::InstructionLemmas::hears_said, crate::proofs::InstructionLemmas::hears_piece))]
    fn hear<'a>(
        &mut self,
        id: u64,
        alloc: Global,
        shared: &mut Shared,
        fields: &mut Fields,
        told: &mut Vec<u8>,
        chunk: &mut Chunk<'a>,
    ) -> Result<Found<'a>, Stop>
        ensures ok { IfOk result (λ found. HearsAndSays id fields.old.limit shared.old self.old.reading chunk.old
            told.old.items found shared.new self.new.reading chunk.new told.new.items) }
        ensures memory { IfErr result (λ e. e ≡ stop.Memory → IsUntouched shared.old self.old.reading chunk.old
            shared.new self.new.reading chunk.new × (told.new.items ≡ told.old.items)) }
        ensures others { self.new ≡ record self.old { reading = self.new.reading } }
        ensures shrinks { length (kept_of self.new.reading) ≤ length (kept_of self.old.reading) }
        ensures fresh { IfOk result (λ found. self.old.reading.ended ≡ true → length chunk.old.bytes.now ≤ 0) }
        ensures ended { self.new.reading.ended ≡ self.old.reading.ended }
        ensures rest { length chunk.new.bytes.now ≤ length chunk.old.bytes.now }
    {
        if shared.is_over() {
            return Err(internal());
        }
        // (bytes after the end are an error of QUIC)
        if self.reading.has_end() && chunk.len() > 0 {
            return Err(internal());
        }
        let found = match self.reading.next(alloc, shared, fields, chunk) {
            Ok(found) => found,
            Err(_) => return Err(Stop::Memory),
        };
        if is_piece(&found) {
            return Ok(found);
        }
        match shared.acknowledge(id, told) {
            Ok(()) => Ok(found),
            Err(_) => Err(Stop::Broken(Code::H3_INTERNAL_ERROR.number().into_inner(), None)),
        }
    }

    // Returns what is found next in the bytes that are kept and those of the input. Of a stream that is not read nothing
    // is.
    #[tactic(auto, using(crate::proofs::InstructionLemmas::looked_and_said, crate::proofs::ActLemmas::reads_at, crate::proofs::ActLemmas::reads_none, crate::proofs::LookLemmas::not_looked, crate::proofs::BoundLemmas::shrunk_keeps))]
    pub(super) fn look<'a>(
        &mut self,
        id: u64,
        alloc: Global,
        shared: &mut Shared,
        fields: &mut Fields,
        told: &mut Vec<u8>,
        chunk: &mut Chunk<'a>,
    ) -> Result<Found<'a>, Stop>
        ensures own { self.new.writing ≡ self.old.writing }
        ensures table { IfOk result (λ found. MayRead id (theirs_of self.old) (theirs_of self.new)
            (table_by shared.old told.old.items) (table_by shared.new told.new.items)) }
        ensures memory { IfErr result (λ e. e ≡ stop.Memory
            → table_by shared.new told.new.items ≡ table_by shared.old told.old.items) }
        ensures reads { IfOk result (λ found. IsRead (with_chunk (theirs_of self.old) chunk.old) (items_found found)
            (with_chunk (theirs_of self.new) chunk.new)) }
        ensures told { self.new.told ≡ self.old.told }
        ensures session { self.new.session ≡ self.old.session }
        ensures place { (self.new.is_opened ≡ self.old.is_opened) × (self.new.is_blocked ≡ self.old.is_blocked)
            × (self.new.priority ≡ self.old.priority) }
        ensures read { (self.new.peer ≡ self.old.peer) × (self.new.is_decoder ≡ self.old.is_decoder) }
        ensures holds { (self.new.has_session ≡ self.old.has_session) × (self.new.is_ended ≡ self.old.is_ended) }
        ensures cancels { self.new.may_cancel ≡ self.old.may_cancel }
        ensures fits { KeepsFit (theirs_of self.old) (theirs_of self.new) }
    {
        if !self.is_read() {
            return Ok(Found::Again);
        }
        match self.hear(id, alloc, shared, fields, told, chunk) {
            Ok(found) => Ok(said_of(self.is_decoder, found)),
            Err(stop) => Err(stop),
        }
    }

    // Returns what is found in the bytes of the input, if the stream is read, nothing of it is kept, its end did not come,
    // and it waits for nothing.
    #[tactic(auto, using(crate::proofs::InstructionLemmas::looked_and_said_plain, crate::proofs::ActLemmas::reads_at, crate::proofs::ActLemmas::reads_none, crate::proofs::LookLemmas::not_looked, crate::proofs::BoundLemmas::shrunk_keeps))]
    pub(super) fn look_plain<'a>(
        &mut self,
        id: u64,
        alloc: Global,
        shared: &mut Shared,
        fields: &mut Fields,
        told: &mut Vec<u8>,
        chunk: &mut Chunk<'a>,
    ) -> Result<Option<Found<'a>>, Stop>
        ensures table { IfOk result (λ found. MayRead id (theirs_of self.old) (theirs_of self.new)
            (table_by shared.old told.old.items) (table_by shared.new told.new.items)) }
        ensures memory { IfErr result (λ e. e ≡ stop.Memory
            → table_by shared.new told.new.items ≡ table_by shared.old told.old.items) }
        ensures bytes { result ≡ Ok None → told.new.items ≡ told.old.items }
        ensures own { self.new.writing ≡ self.old.writing }
        ensures reads { IfOk result (λ found. IsRead (with_chunk (theirs_of self.old) chunk.old) (items_if found)
            (with_chunk (theirs_of self.new) chunk.new)) }
        ensures entry { result ≡ Ok None → self.new ≡ self.old }
        ensures shared { result ≡ Ok None → shared.new ≡ shared.old }
        ensures fields { result ≡ Ok None → fields.new ≡ fields.old }
        ensures none { result ≡ Ok None → chunk.new ≡ chunk.old }
        ensures told { self.new.told ≡ self.old.told }
        ensures session { self.new.session ≡ self.old.session }
        ensures place { (self.new.is_opened ≡ self.old.is_opened) × (self.new.is_blocked ≡ self.old.is_blocked)
            × (self.new.priority ≡ self.old.priority) }
        ensures read { (self.new.peer ≡ self.old.peer) × (self.new.is_decoder ≡ self.old.is_decoder) }
        ensures holds { (self.new.has_session ≡ self.old.has_session) × (self.new.is_ended ≡ self.old.is_ended) }
        ensures cancels { self.new.may_cancel ≡ self.old.may_cancel }
        ensures fits { KeepsFit (theirs_of self.old) (theirs_of self.new) }
    {
        if !self.is_plain() {
            return Ok(None);
        }
        let len = chunk.len();
        match self.hear(id, alloc, shared, fields, told, chunk) {
            Ok(found) => {
                self.count_read(&found, len.saturating_sub(chunk.len()));
                Ok(Some(found))
            }
            Err(stop) => Err(stop),
        }
    }

    // Returns whether it is read, nothing of it is kept, its end did not come, and it waits for nothing.
    fn is_plain(&self) -> bool
        ensures reads { result ≡ true → self.now.peer ≡ peer.Reads }
        ensures content { result ≡ true → self.now.is_decoder ≡ false }
        ensures open { result ≡ true → self.now.reading.ended ≡ false }
    {
        self.is_read()
            && !self.is_decoder
            && !self.is_paused
            && self.reading.len() == 0
            && !self.reading.has_end()
            && self.reading.waits().is_none()
    }

    // Counts what was read where so many bytes were kept and in the input before. Returns by how many bytes QUIC's windows
    // are to be extended.
    pub(super) fn count_looked(
        &mut self,
        found: &Found<'_>,
        kept: usize,
        len: usize,
        rest: usize,
    ) -> usize
        ensures own { self.new.writing ≡ self.old.writing }
        ensures theirs { theirs_of self.new ≡ theirs_of self.old }
        ensures told { self.new.told ≡ self.old.told }
        ensures session { self.new.session ≡ self.old.session }
        ensures place { (self.new.is_opened ≡ self.old.is_opened) × (self.new.is_blocked ≡ self.old.is_blocked)
            × (self.new.priority ≡ self.old.priority) }
        ensures read { (self.new.peer ≡ self.old.peer) × (self.new.is_decoder ≡ self.old.is_decoder) }
        ensures holds { (self.new.has_session ≡ self.old.has_session) × (self.new.is_ended ≡ self.old.is_ended) }
        ensures cancels { self.new.may_cancel ≡ self.old.may_cancel }
    {
        let left = self.reading.len();
        let read = kept
            .saturating_add(len)
            .saturating_sub(left.saturating_add(rest));
        self.count_read(found, read);
        let owed = self.withheld.min(kept.saturating_sub(left));
        self.withheld = self.withheld.saturating_sub(owed);
        owed
    }

    // Counts bytes that were read, unless they violate a rule: the count is then where.
    fn count_read(&mut self, found: &Found<'_>, len: usize)
        ensures reading { self.new.reading ≡ self.old.reading }
        ensures peer { self.new.peer ≡ self.old.peer }
        ensures content { self.new.is_decoder ≡ self.old.is_decoder }
        ensures own { self.new.writing ≡ self.old.writing }
        ensures told { self.new.told ≡ self.old.told }
        ensures session { self.new.session ≡ self.old.session }
        ensures place { (self.new.is_opened ≡ self.old.is_opened) × (self.new.is_blocked ≡ self.old.is_blocked)
            × (self.new.priority ≡ self.old.priority) }
        ensures read { (self.new.peer ≡ self.old.peer) × (self.new.is_decoder ≡ self.old.is_decoder) }
        ensures holds { (self.new.has_session ≡ self.old.has_session) × (self.new.is_ended ≡ self.old.is_ended) }
        ensures cancels { self.new.may_cancel ≡ self.old.may_cancel }
    {
        if !is_failure(found) {
            self.offset = self.offset.saturating_add(len as u64);
        }
    }
}

// Returns whether a piece of content was found.
fn is_piece(found: &Found<'_>) -> bool
    ensures { result ≡ is_found_piece found.now }
{
    match found {
        Found::Heard(Heard::Data(_)) => true,
        Found::Heard(Heard::StreamData(_)) => true,
        _ => false,
    }
}

// Returns what is said of what was found. Nothing is told of it, where the bytes are instructions for the own encoder.
fn said_of<'a>(is_decoder: bool, found: Found<'a>) -> Found<'a>
    ensures same { is_decoder ≡ false → result ≡ found.entry }
    ensures none { is_decoder ≡ true → items_found result ≡ [] }
{
    if is_decoder && has_items(&found) {
        return Found::Again;
    }
    found
}

// Returns whether something was found that is to be told.
fn has_items(found: &Found<'_>) -> bool
    ensures { result ≡ false → items_found found.now ≡ [] }
{
    match found {
        Found::Heard(Heard::Data(_)) => true,
        Found::Heard(Heard::StreamData(_)) => true,
        Found::Heard(Heard::Event(event)) => says_items(event),
        _ => false,
    }
}
