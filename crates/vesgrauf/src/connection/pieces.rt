//! What is told at once: a piece of content, by one look-up and without memory.
ghost use Rattle.std.specs.Prelude.{◌≡◌, ℕ, List, true, false, [], Ok, ◌∷◌, None, IfOk, IfSome, OnOk, MatchOption};
ghost use Rattle.vesgrauf.specs.Instructions.{table_by, table_of};
ghost use Rattle.vesgrauf.specs.Keeps.{KeepsOwn};
ghost use Rattle.vesgrauf.specs.Bounds.{KeepsBound, KeepsFit};
ghost use Rattle.vesgrauf.specs.Progress.{IsSettled};
ghost use Rattle.vesgrauf.specs.Told.{told_by_call, word_of, ends};
ghost use Rattle.vesgrauf.specs.Streams.{is_known};
ghost use Rattle.vesgrauf.specs.declared.event.Event.{Event as EventOf};
ghost use Rattle.vesgrauf.specs.State.{is_over, is_last, IsAfterEnd, IsSomeOk, IsStill};
ghost use Rattle.vesgrauf.specs.Items.{content};
ghost use Rattle.vesgrauf.specs.Theirs.{IsRead, ReadsOn, Tells, TellsAll, items_on, told_by, with_chunk, theirs_at, theirs_of};
ghost use Rattle.vesgrauf.specs.Works.{MayRead, WorksOn};
ghost use Rattle.vesgrauf.specs.declared.entry.Peer.TheVariants as peer;
ghost use Rattle.vesgrauf.specs.declared.input.Report.TheVariants as report;

use crate::connection::Connection;
use crate::entry::Entry;
use crate::event::{Event, EventKind};
use crate::input::{Input, Report};
use std::alloc::AllocError;
use vesgrauf_stream::bytes::{Bytes, Chunk};
use wtp_webtransport::connection::Connection as Shared;

/// A piece of content, and what is told with it.
#[derive(Clone, Copy)]
struct Piece<'a> {
    bytes: &'a [u8],
    /// How many bytes of the stream were read: with it, the head of its frame.
    read: usize,
    stream: u64,
    session: Option<u64>,
    user: Option<u64>,
}

impl Connection {
    // Returns the next event, as `next_event` does: a piece of content at once. (In place, so that the caller has the parts of
    // its event, and no event is written.)
    #[inline(always)]
    #[tactic(auto, using(crate::proofs::ActLemmas::act, crate::proofs::KeepsOwnLemmas::hold, crate::proofs::BoundLemmas::bound))]
    pub(super) fn next_due<'a>(
        &mut self,
        input: &mut Input<'a>,
    ) -> Result<Option<Event<'a>>, AllocError>
        ensures last { IsAfterEnd self.old → IsSomeOk result (λ e. is_last e.kind ≡ true) }
        ensures over { IsAfterEnd self.old → IsAfterEnd self.new }
        ensures keeps { KeepsOwn (told_by_call result) self.old self.new }
        ensures works { OnOk result (WorksOn self.old self.new) }
        ensures told { is_over self.new ≡ false → IfOk result (λ e. TellsAll self.old.ids (told_by e)
            self.old.streams.entries input.old self.new.streams.entries input.new) }
        ensures settled { result ≡ Ok None → IsSettled self.new input.new }
        ensures bounded { is_over self.new ≡ false → OnOk result (KeepsBound self.old self.new) }
    {
        match self.piece_due(input) {
            Some(piece) => return Ok(Some(Event {
                stream: piece.stream,
                session: piece.session,
                user: piece.user,
                kind: EventKind::Data(Bytes::Input(piece.bytes)),
            })),
            None => self.next_else(input),
        }
    }

    // Returns the next event, where it is no piece of content that is told at once. (In place, so that the event of a piece
    // is written where it is returned.)
    #[inline(always)]
    #[tactic(auto, using(crate::proofs::ActLemmas::act, crate::proofs::KeepsOwnLemmas::hold, crate::proofs::BoundLemmas::bound))]
    fn next_else<'a>(&mut self, input: &mut Input<'a>) -> Result<Option<Event<'a>>, AllocError>
        ensures last { IsAfterEnd self.old → IsSomeOk result (λ e. is_last e.kind ≡ true) }
        ensures over { IsAfterEnd self.old → IsAfterEnd self.new }
        ensures keeps { KeepsOwn (told_by_call result) self.old self.new }
        ensures works { OnOk result (WorksOn self.old self.new) }
        ensures told { is_over self.new ≡ false → IfOk result (λ e. TellsAll self.old.ids (told_by e)
            self.old.streams.entries input.old self.new.streams.entries input.new) }
        ensures settled { result ≡ Ok None → IsSettled self.new input.new }
        ensures bounded { is_over self.new ≡ false → OnOk result (KeepsBound self.old self.new) }
    {
        self.next_no_piece(input)
    }

    // Returns the next event: that of bytes of a stream at once, where nothing is due before them.
    #[inline(never)]
    #[tactic(auto, using(crate::proofs::ActLemmas::act, crate::proofs::KeepsOwnLemmas::hold, crate::proofs::BoundLemmas::bound))]
    fn next_no_piece<'a>(&mut self, input: &mut Input<'a>) -> Result<Option<Event<'a>>, AllocError>
        ensures last { IsAfterEnd self.old → IsSomeOk result (λ e. is_last e.kind ≡ true) }
        ensures over { IsAfterEnd self.old → IsAfterEnd self.new }
        ensures keeps { KeepsOwn (told_by_call result) self.old self.new }
        ensures works { OnOk result (WorksOn self.old self.new) }
        ensures told { is_over self.new ≡ false → IfOk result (λ e. TellsAll self.old.ids (told_by e)
            self.old.streams.entries input.old self.new.streams.entries input.new) }
        ensures settled { result ≡ Ok None → IsSettled self.new input.new }
        ensures bounded { is_over self.new ≡ false → OnOk result (KeepsBound self.old self.new) }
    {
        if self.is_quiet() {
            match input.report {
                Report::Stream(id) => return self.read_at_once(id, input),
                _ => {}
            }
        }
        self.next_by_steps(input)
    }

    // Returns the piece of content that is next in bytes of a stream, where nothing is due before them.
    #[inline(always)]
    #[tactic(auto, using(crate::proofs::ActLemmas::act, crate::proofs::BoundLemmas::bound))]
    fn piece_due<'a>(&mut self, input: &mut Input<'a>) -> Option<Piece<'a>>
        ensures tells { IfSome result (λ p. Tells (items_on p.stream (content p.bytes.now))
            self.old.streams.entries input.old self.new.streams.entries input.new) }
        ensures before { IfSome result (λ p. is_over self.old ≡ false) }
        ensures still { result ≡ None → IsStill self.old self.new }
        ensures none { result ≡ None → input.new ≡ input.old }
        ensures keeps { IfSome result (λ p. (e : EventOf) → e.stream ≡ p.stream → ends (word_of e.kind) ≡ false
            → KeepsOwn (e ∷ []) self.old self.new) }
        ensures works { WorksOn self.old self.new }
        ensures bounded { KeepsBound self.old self.new }
    {
        match input.report {
            Report::Stream(id) if self.is_quiet() => self.piece_at_once(id, input),
            _ => None,
        }
    }

    // Returns the piece of content that is next in bytes of a stream, if the stream does not end after them. Nothing
    // follows it but more bytes, or the end.
    #[inline(always)]
    #[tactic(auto, using(crate::proofs::ActLemmas::act, crate::proofs::PieceLemmas::piece_tells, crate::proofs::BoundLemmas::bound))]
    fn piece_at_once<'a>(&mut self, id: u64, input: &mut Input<'a>) -> Option<Piece<'a>>
        ensures tells { input.old.report ≡ report.Stream id
            → IfSome result (λ p. Tells (items_on p.stream (content p.bytes.now))
            self.old.streams.entries input.old self.new.streams.entries input.new) }
        ensures still { result ≡ None → IsStill self.old self.new }
        ensures none { result ≡ None → input.new ≡ input.old }
        ensures keeps { IfSome result (λ p. (e : EventOf) → e.stream ≡ p.stream → ends (word_of e.kind) ≡ false
            → KeepsOwn (e ∷ []) self.old self.new) }
        ensures works { WorksOn self.old self.new }
        ensures bounded { KeepsBound self.old self.new }
    {
        if input.chunk.is_last() {
            return None;
        }
        let piece = self.piece_in(id, &mut input.chunk)?;
        input.count_read(piece.read);
        input.end_if_read();
        Some(piece)
    }

    // Returns the piece of content that is next in bytes of a stream.
    #[inline(always)]
    #[tactic(auto, using(crate::proofs::LookLemmas::reads_set, crate::proofs::ActLemmas::act_refl, crate::proofs::ActLemmas::act_looked, crate::proofs::ActLemmas::reads_here, crate::proofs::PieceLemmas::piece_keeps, std::proofs::lemmas::Map::Steps::set_value_same, crate::proofs::BoundLemmas::bound, crate::proofs::PlaceLemmas::ordered, crate::proofs::JoinedLemmas::joined))]
    fn piece_in<'a>(&mut self, id: u64, chunk: &mut Chunk<'a>) -> Option<Piece<'a>>
        ensures stream { IfSome result (λ p. p.stream ≡ id) }
        ensures reads { IfSome result (λ p. ReadsOn id (content p.bytes.now) self.old.streams.entries chunk.old
            self.new.streams.entries chunk.new) }
        ensures table { IfSome result (λ p. MayRead id (theirs_at self.old.streams.entries id)
            (theirs_at self.new.streams.entries id) (table_of self.old) (table_of self.new)) }
        ensures still { result ≡ None → IsStill self.old self.new }
        ensures none { result ≡ None → chunk.new ≡ chunk.old }
        ensures keeps { IfSome result (λ p. (e : EventOf) → e.stream ≡ p.stream → ends (word_of e.kind) ≡ false
            → KeepsOwn (e ∷ []) self.old self.new) }
        ensures works { WorksOn self.old self.new }
        ensures bounded { KeepsBound self.old self.new }
    {
        let Some(entry) = self.streams.get_mut(&id) else {
            return None;
        };
        let (bytes, read) = entry.next_piece(&mut self.shared, chunk)?;
        Some(Piece {
            bytes,
            read,
            stream: id,
            session: entry.session_shown(id),
            user: entry.user,
        })
    }
}

impl Entry {
    // Returns the piece of content that is next in the input, if pieces of the stream are told as they come, and how many
    // bytes are read.
    #[inline(always)]
    #[tactic(auto, using(crate::proofs::PieceLemmas::looked_piece, crate::proofs::ActLemmas::reads_piece, crate::proofs::BoundLemmas::same_keeps))]
    fn next_piece<'a>(
        &mut self,
        shared: &mut Shared,
        chunk: &mut Chunk<'a>,
    ) -> Option<(&'a [u8], usize)>
        ensures own { self.new.writing ≡ self.old.writing }
        ensures reads { MatchOption result
            ((self.new ≡ self.old) × (shared.new ≡ shared.old) × (chunk.new ≡ chunk.old))
            (λ p. IsRead (with_chunk (theirs_of self.old) chunk.old) (content p.0.now)
            (with_chunk (theirs_of self.new) chunk.new)) }
        ensures table { IfSome result (λ p. (id : ℕ) (bytes : List ℕ)
            → MayRead id (theirs_of self.old) (theirs_of self.new) (table_by shared.old bytes)
            (table_by shared.new bytes)) }
        ensures known { IfSome result (λ p. is_known self.old.told ≡ true) }
        ensures told { self.new.told ≡ self.old.told }
        ensures session { self.new.session ≡ self.old.session }
        ensures place { (self.new.is_opened ≡ self.old.is_opened) × (self.new.is_blocked ≡ self.old.is_blocked)
            × (self.new.priority ≡ self.old.priority) }
        ensures read { (self.new.peer ≡ self.old.peer) × (self.new.is_decoder ≡ self.old.is_decoder) }
        ensures holds { (self.new.has_session ≡ self.old.has_session) × (self.new.is_ended ≡ self.old.is_ended) }
        ensures cancels { self.new.may_cancel ≡ self.old.may_cancel }
        ensures fits { KeepsFit (theirs_of self.old) (theirs_of self.new) }
    {
        if !self.gives_pieces() {
            return None;
        }
        let len = chunk.len();
        let bytes = self.reading.next_piece(shared, chunk)?;
        let read = len.saturating_sub(chunk.len());
        self.offset = self.offset.saturating_add(read as u64);
        Some((bytes, read))
    }

    // Returns whether pieces of the stream are told as they come: it is read, its end did not come, the program knows of it,
    // and did not pause it.
    #[inline(always)]
    fn gives_pieces(&self) -> bool
        ensures reads { result ≡ true → self.now.peer ≡ peer.Reads }
        ensures content { result ≡ true → self.now.is_decoder ≡ false }
        ensures known { result ≡ true → is_known self.now.told ≡ true }
        ensures open { result ≡ true → self.now.reading.ended ≡ false }
    {
        self.is_read()
            && self.is_known()
            && (!self.is_decoder & !self.is_paused & !self.reading.has_end())
    }
}
