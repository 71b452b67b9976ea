//! The peer's half of one stream: the bytes that came, and what is heard in them.
ghost use Rattle.std.specs.Prelude.{◌≡◌, ◌≤◌, vec_len, take, drop};

mod calls;
mod pieces;

use crate::bytes::Chunk;
use crate::heard::{Heard, heard_in, kept_from};
use std::alloc::{AllocError, Global};
use wtp_webtransport::connection::Connection;
use wtp_webtransport::event::Event;
use wtp_webtransport::fields::Fields;
use wtp_webtransport::stream::Stream;

/// How many bytes are looked at first where some are kept.
const FIRST_REACH: usize = 1024;

/// The peer's half of one stream. It keeps the bytes that came and cannot be read yet.
#[derive(Drop)]
pub struct Reading {
    /// The state of the stream.
    pub(crate) stream: Stream,
    /// The bytes that are kept, after `used` bytes that were read.
    pub(crate) buffer: Vec<u8>,
    /// How many bytes of the buffer were read.
    pub(crate) used: usize,
    /// Whether the stream ends after the bytes that are kept.
    pub(crate) ended: bool,
    /// How many bytes the next call looks at where some are kept.
    pub(crate) reach: usize,
    ghost within: { used ≤ vec_len buffer },
}

/// What a call of [`Reading::next`] found.
#[derive(Drop)]
pub enum Found<'a> {
    /// This was heard.
    Heard(Heard<'a>),
    /// The bytes that were looked at are too few, and there are more: call again.
    Again,
}

/// What was found in the bytes that were looked at.
#[derive(Drop)]
pub(crate) struct Looked {
    /// How many of them were read.
    pub(crate) consumed: usize,
    /// Whether they are too few.
    pub(crate) more: bool,
    /// What was heard.
    pub(crate) heard: Heard<'static>,
}

impl Reading {
    ghost use Rattle.std.specs.Prelude.{◌≡◌, ◌≤◌, ◌+◌, ◌-◌, ◌==◌, ◌&&◌, [], ◌++◌, false, length, min, take, drop, vec_len, vec_capacity, IfOk, OnOk, OnErr};
    ghost use Rattle.vesgrauf_stream.specs.Reading.{kept_of, unread, is_ended, Hears, LooksAt, IsUntouched, Keeps};

    /// Creates the state of a stream of which nothing came.
    pub fn new(alloc: Global, stream: Stream) -> Self
        ensures stream { result.stream ≡ stream }
        ensures kept { kept_of result ≡ [] }
        ensures ended { result.ended ≡ false }
    {
        Reading {
            stream,
            buffer: Vec::new(alloc),
            used: 0,
            ended: false,
            reach: FIRST_REACH,
        }
    }

    /// Returns how many bytes are kept.
    pub fn len(&self) -> usize
        ensures { result ≡ length (kept_of self.now) }
    {
        self.buffer.len() - self.used
    }

    /// Returns what is heard next in the bytes that are kept and then in those of the input.
    ///
    /// Bytes of the input are not copied if none are kept. Otherwise only those are that are read together
    /// with kept ones.
    ///
    /// # Errors
    ///
    /// If allocation fails: nothing changes then, and the call can be repeated.
    pub fn next<'a>(
        &mut self,
        alloc: Global,
        shared: &mut Connection,
        fields: &mut Fields,
        input: &mut Chunk<'a>,
    ) -> Result<Found<'a>, AllocError>
        ensures ok { IfOk result (λ found. Hears fields.old.limit shared.old self.old input.old found
            shared.new self.new input.new) }
        ensures err { OnErr result (IsUntouched shared.old self.old input.old shared.new self.new input.new) }
        ensures fields { fields.new ≡ fields.old }
        ensures shrinks { length (kept_of self.new) ≤ length (kept_of self.old) }
        ensures ended { self.new.ended ≡ self.old.ended }
        ensures rest { length input.new.bytes.now ≤ length input.old.bytes.now }
    {
        if self.len() == 0 {
            return Ok(self.next_of_input(shared, fields, input));
        }
        self.next_of_both(alloc, shared, fields, input)
    }

    // Returns what is heard next in the bytes of the input, where none are kept.
    fn next_of_input<'a>(
        &mut self,
        shared: &mut Connection,
        fields: &mut Fields,
        input: &mut Chunk<'a>,
    ) -> Found<'a>
        requires { kept_of self.old ≡ [] }
        ensures heard { Hears fields.old.limit shared.old self.old input.old result
            shared.new self.new input.new }
        ensures fields { fields.new ≡ fields.old }
        ensures shrinks { length (kept_of self.new) ≤ length (kept_of self.old) }
        ensures ended { self.new.ended ≡ self.old.ended }
        ensures rest { length input.new.bytes.now ≤ length input.old.bytes.now }
    {
        let fin = self.ends_with(input);
        let received = shared.receive(&mut self.stream, input.bytes, fin, fields);
        input.consume(received.consumed);
        Found::Heard(heard_in(received.event))
    }

    // Returns what is heard next in the bytes that are kept and some of the input.
    fn next_of_both<'a>(
        &mut self,
        alloc: Global,
        shared: &mut Connection,
        fields: &mut Fields,
        input: &mut Chunk<'a>,
    ) -> Result<Found<'a>, AllocError>
        ensures ok { IfOk result (λ found. Hears fields.old.limit shared.old self.old input.old found
            shared.new self.new input.new) }
        ensures err { OnErr result (IsUntouched shared.old self.old input.old shared.new self.new input.new) }
        ensures fields { fields.new ≡ fields.old }
        ensures shrinks { length (kept_of self.new) ≤ length (kept_of self.old) }
        ensures ended { self.new.ended ≡ self.old.ended }
        ensures rest { length input.new.bytes.now ≤ length input.old.bytes.now }
    {
        let all = self.len() + input.len();
        let len = self.reach.min(all);
        let room = Vec::with_capacity(alloc, len)?;
        let joined = self.join(len, input)?;
        let fin = self.ends_at(len, all, input);
        let looked = self.look(shared, fields, len, fin, room);
        self.unjoin(joined, looked.consumed, input);
        if looked.more && len < all {
            self.reach = self.reach.saturating_mul(2);
            return Ok(Found::Again);
        }
        self.reach = FIRST_REACH;
        Ok(Found::Heard(looked.heard))
    }

    // Keeps as many bytes of the input, which has them still, as are missing to `len`. Returns how many.
    fn join(&mut self, len: usize, input: &Chunk<'_>) -> Result<usize, AllocError>
        ensures count { IfOk result (λ n. n ≡ min (len - length (kept_of self.old)) (length input.now.bytes.now)) }
        ensures ok { IfOk result (λ n. kept_of self.new ≡ kept_of self.old ++ take n input.now.bytes.now) }
        ensures err { OnErr result (kept_of self.new ≡ kept_of self.old) }
        ensures stream { self.new.stream ≡ self.old.stream }
        ensures ended { self.new.ended ≡ self.old.ended }
        ensures reach { self.new.reach ≡ self.old.reach }
    {
        let missing = len.saturating_sub(self.len());
        let count = missing.min(input.len());
        self.buffer.extend_from_slice(input.front(count))?;
        Ok(count)
    }

    // Looks at the first `len` bytes that are kept. `fin`: the stream ends after them.
    #[tactic(auto, using(crate::proofs::ReadingLemmas::call_fits))]
    fn look(
        &mut self,
        shared: &mut Connection,
        fields: &mut Fields,
        len: usize,
        fin: bool,
        room: Vec<u8>,
    ) -> Looked
        requires empty { vec_len room ≡ 0 }
        requires room { vec_capacity room ≡ len }
        ensures gives { LooksAt fields.old.limit shared.old self.old.stream (take len (kept_of self.old)) fin result
            shared.new self.new.stream }
        ensures kept { kept_of self.new ≡ kept_of self.old }
        ensures ended { self.new.ended ≡ self.old.ended }
        ensures reach { self.new.reach ≡ self.old.reach }
        ensures fields { fields.new ≡ fields.old }
    {
        let kept = after(self.buffer.as_slice(), self.used);
        let bytes = front(kept, len);
        let received = shared.receive(&mut self.stream, bytes, fin, fields);
        let consumed = received.consumed;
        let more = matches!(received.event, Event::More);
        let heard = kept_from(received.event, room);
        Looked {
            consumed,
            more,
            heard,
        }
    }

    // Takes back the last `joined` bytes, which the input has still, and then reads `consumed` bytes.
    fn unjoin(&mut self, joined: usize, consumed: usize, input: &mut Chunk<'_>)
        requires { joined ≤ length (kept_of self.old) }
        ensures left { unread self.new input.new ≡ drop consumed
            (take (length (kept_of self.old) - joined) (kept_of self.old) ++ input.old.bytes.now) }
        ensures fin { input.new.fin ≡ input.old.fin }
        ensures rest { length input.new.bytes.now ≤ length input.old.bytes.now }
        ensures stream { self.new.stream ≡ self.old.stream }
        ensures ended { self.new.ended ≡ self.old.ended }
        ensures reach { self.new.reach ≡ self.old.reach }
        ensures shrinks { length (kept_of self.new) + joined ≤ length (kept_of self.old) }
    {
        let len = self.buffer.len() - joined;
        self.buffer.truncate(len);
        let kept = len - self.used;
        if consumed < kept {
            self.used += consumed;
        } else {
            self.used = len;
            input.consume(consumed - kept);
        }
    }

    /// Keeps the bytes of the input that were not read, and its end.
    ///
    /// # Errors
    ///
    /// If allocation fails: nothing changes then.
    pub fn keep(&mut self, input: &mut Chunk<'_>) -> Result<(), AllocError>
        ensures ok { OnOk result (Keeps self.old input.old self.new input.new) }
        ensures stream { OnErr result (self.new.stream ≡ self.old.stream) }
        ensures kept { OnErr result (unread self.new input.new ≡ unread self.old input.old) }
        ensures ended { OnErr result (is_ended self.new input.new ≡ is_ended self.old input.old) }
    {
        self.drop_read();
        self.buffer.extend_from_slice(input.bytes)?;
        self.ended = self.ends_with(input);
        input.bytes = &[];
        Ok(())
    }

    // Returns whether the stream ends after the bytes that were not read.
    fn ends_with(&self, input: &Chunk<'_>) -> bool
        ensures { result ≡ is_ended self.now input.now }
    {
        self.ended || input.fin
    }

    // Returns whether the stream ends after the first `len` of `all` bytes that were not read.
    fn ends_at(&self, len: usize, all: usize, input: &Chunk<'_>) -> bool
        ensures { result ≡ (len == all && is_ended self.now input.now) }
    {
        len == all && self.ends_with(input)
    }

    // Frees the bytes of the buffer that were read.
    fn drop_read(&mut self)
        ensures front { self.new.used ≡ 0 }
        ensures stream { self.new.stream ≡ self.old.stream }
        ensures kept { kept_of self.new ≡ kept_of self.old }
        ensures ended { self.new.ended ≡ self.old.ended }
    {
        let len = self.buffer.len();
        if self.used == 0 {
            return;
        }
        self.buffer.rotate_left(self.used);
        self.buffer.truncate(len - self.used);
        self.used = 0;
    }
}

// Returns the bytes after the first `len`.
fn after(bytes: &[u8], len: usize) -> &[u8]
    ensures { result.now ≡ drop len bytes.now }
{
    bytes.get(len..).unwrap_or(&[])
}

// Returns the first `len` bytes: all, if they are fewer.
fn front(bytes: &[u8], len: usize) -> &[u8]
    ensures { result.now ≡ take len bytes.now }
{
    bytes.get(..len).unwrap_or(bytes)
}
