//! The bytes of a stream in blocks, which never move.
ghost use Rattle.vesgrauf_queue.specs.Layout.{IsLaid, parts};

use crate::spares::{BLOCK, Spares};
use std::alloc::{AllocError, Global};
use std::collections::VecDeque;
use std::mem::replace;

mod room;

use room::{block_at, cut_last, drop_freed, fill, reuse};

/// Fewer bytes than these are copied, so that none of them takes a block.
const FEW: usize = 4_096;

/// How many bytes are shown at once.
const MOST: usize = 16_384;

/// The bytes of a stream, in blocks. Bytes are added at the end, given from the front, and freed in the order in
/// which they were given. A block never moves: it is filled within the room that it was made with.
#[derive(Drop)]
pub(crate) struct Blocks {
    /// The blocks to which nothing is added any more.
    sealed: VecDeque<Vec<u8>>,
    /// The last block.
    last: Vec<u8>,
    /// How many of the sealed blocks were given whole.
    lent: usize,
    /// How many bytes of the block after them were given.
    used: usize,
    /// How many bytes of the first block were freed.
    freed: usize,
    /// The allocator.
    alloc: Global,
    ghost laid: { IsLaid (parts sealed.items) last.items lent used freed },
}

impl Blocks {
    ghost use Rattle.std.specs.Prelude.{◌≡◌, ◌⊎◌, if◌then◌else◌, false, ◌+◌, ◌-◌, ◌^◌, ◌<◌, [], ◌∷◌, ◌++◌, ◌≤◌, length, drop, take, OnOk, OnErr, IfErr, vec_len, vec_capacity};
    ghost use Rattle.std.specs.VecDeque.{deque_len, deque_capacity};
    ghost use Rattle.std.specs.List.{concat};
    ghost use Rattle.vesgrauf_queue.specs.Pieces.{first as first_of, second as second_of, onto_last, Adds, AddsBoth, IsStartOf, after_first, after_shown, shown, shown_first as shown_first_of, shown_second as shown_second_of};
    ghost use Rattle.vesgrauf_queue.specs.Blocks.{pieces, kept};

    /// Creates blocks without bytes. Nothing is allocated.
    pub fn new(alloc: Global) -> Self
        ensures pieces { pieces result ≡ [] ∷ [] }
        ensures kept { kept result ≡ [] }
    {
        Blocks {
            sealed: VecDeque::new(alloc),
            last: Vec::new(alloc),
            lent: 0,
            used: 0,
            freed: 0,
            alloc,
        }
    }

    /// Returns the first piece that was not given. It is empty only if all bytes were given.
    pub fn first(&self) -> &[u8]
        ensures bytes { result.now ≡ first_of (pieces self.now) }
        ensures filled { result.now ≡ [] → concat (pieces self.now) ≡ [] }
    {
        let block = block_at(&self.sealed, &self.last, self.lent);
        block.get(self.used..).unwrap_or(&[])
    }

    /// Returns the piece after the first one, or nothing if there is none.
    pub fn second(&self) -> &[u8]
        ensures { result.now ≡ second_of (pieces self.now) }
    {
        if self.lent >= self.sealed.len() {
            return &[];
        }
        block_at(&self.sealed, &self.last, self.lent + 1)
    }

    // Seals the last block, unless it is empty, and goes on with a fresh one.
    fn seal(&mut self, spares: &mut Spares, fresh: Vec<u8>)
        requires room { 0 < length self.old.last.items → deque_len self.old.sealed < deque_capacity self.old.sealed }
        requires empty { fresh.items ≡ [] }
        ensures pieces { (pieces self.new ≡ pieces self.old) ⊎ (pieces self.new ≡ pieces self.old ++ [] ∷ []) }
        ensures kept { kept self.new ≡ kept self.old }
        ensures last { self.new.last.items ≡ [] }
        ensures capacity { vec_capacity self.new.last ≡ vec_capacity fresh }
        ensures few { deque_len self.new.sealed ≤ deque_len self.old.sealed + 1 }
        ensures room_left { deque_capacity self.new.sealed ≡ deque_capacity self.old.sealed }
    {
        let given = self.lent == self.sealed.len() && self.used == self.last.len();
        let block = replace(&mut self.last, fresh);
        if block.is_empty() {
            spares.put(block);
            return;
        }
        self.sealed.push_back_reserved(block);
        if given {
            self.lent += 1;
            self.used = 0;
        }
    }

    // Adds bytes to the last block, which has room for them.
    fn add(&mut self, head: &[u8], bytes: &[u8])
        requires { vec_len self.old.last + (length head.now + length bytes.now) ≤ vec_capacity self.old.last }
        ensures pieces { pieces self.new ≡ onto_last (pieces self.old) (head.now ++ bytes.now) }
        ensures kept { kept self.new ≡ kept self.old }
        ensures sealed { self.new.sealed ≡ self.old.sealed }
        ensures last { self.new.last.items ≡ self.old.last.items ++ (head.now ++ bytes.now) }
    {
        fill(&mut self.last, head, bytes);
    }

    // Goes on with a block of this capacity, if the last one has no room for so many bytes.
    fn make_room(
        &mut self,
        spares: &mut Spares,
        len: usize,
        capacity: usize,
    ) -> Result<(), AllocError>
        requires { len ≤ capacity }
        ensures pieces { (pieces self.new ≡ pieces self.old) ⊎ (pieces self.new ≡ pieces self.old ++ [] ∷ []) }
        ensures kept { kept self.new ≡ kept self.old }
        ensures room { OnOk result (vec_len self.new.last + len ≤ vec_capacity self.new.last) }
        ensures few { deque_len self.new.sealed ≤ deque_len self.old.sealed + 1 }
        ensures room_left { deque_capacity self.old.sealed ≤ deque_capacity self.new.sealed }
        ensures err { OnErr result (pieces self.new ≡ pieces self.old) }
    {
        if len <= self.last.capacity() - self.last.len() {
            return Ok(());
        }
        if !self.last.is_empty() {
            self.sealed.reserve(1)?;
        }
        let fresh = spares.take(capacity)?;
        self.seal(spares, fresh);
        Ok(())
    }

    // Seals a whole block after the last one, which is empty.
    fn seal_block(&mut self, block: Vec<u8>)
        requires room { deque_len self.old.sealed < deque_capacity self.old.sealed }
        requires empty { self.old.last.items ≡ [] }
        requires filled { 0 < length block.items }
        ensures pieces { pieces self.new ≡ onto_last (pieces self.old) block.items ++ [] ∷ [] }
        ensures kept { kept self.new ≡ kept self.old }
    {
        self.sealed.push_back_reserved(block);
    }

    /// Adds a copy of a head and of bytes after it, all in one slice.
    ///
    /// # Errors
    ///
    /// If memory is refused: nothing changes then.
    pub fn push(&mut self, spares: &mut Spares, head: &[u8], bytes: &[u8]) -> Result<(), AllocError>
        ensures ok { OnOk result (Adds (pieces self.old) (head.now ++ bytes.now) (pieces self.new)) }
        ensures kept { kept self.new ≡ kept self.old }
        ensures err { OnErr result (pieces self.new ≡ pieces self.old) }
    {
        let len = head.len() + bytes.len();
        self.make_room(spares, len, len.max(BLOCK))?;
        self.add(head, bytes);
        Ok(())
    }

    /// Adds a copy of a head, and a block after it, which is not empty and is not copied. Each lies in one slice.
    ///
    /// # Errors
    ///
    /// Returns the block if memory is refused: nothing changes then.
    pub fn push_block(
        &mut self,
        spares: &mut Spares,
        head: &[u8],
        block: Vec<u8>,
    ) -> Result<(), Vec<u8>>
        requires { 0 < length block.items }
        ensures ok { OnOk result (AddsBoth (pieces self.old) head.now block.items (pieces self.new)) }
        ensures kept { kept self.new ≡ kept self.old }
        ensures err { IfErr result (λ v. (v ≡ block) × (pieces self.new ≡ pieces self.old)) }
    {
        if self.sealed.reserve(3).is_err() {
            return Err(block);
        }
        if self.make_room(spares, head.len(), head.len()).is_err() {
            return Err(block);
        }
        self.add(head, &[]);
        self.seal(spares, Vec::new(self.alloc));
        self.seal_block(block);
        Ok(())
    }

    /// Adds a copy of a head, and bytes after it, which are not copied unless they are few. Each lies in one slice.
    ///
    /// # Errors
    ///
    /// Returns the bytes if memory is refused: nothing changes then.
    pub fn push_whole(
        &mut self,
        spares: &mut Spares,
        head: &[u8],
        bytes: Vec<u8>,
    ) -> Result<(), Vec<u8>>
        ensures ok { OnOk result (AddsBoth (pieces self.old) head.now bytes.items (pieces self.new)) }
        ensures kept { kept self.new ≡ kept self.old }
        ensures err { IfErr result (λ v. (v ≡ bytes) × (pieces self.new ≡ pieces self.old)) }
    {
        if bytes.len() >= FEW {
            return self.push_block(spares, head, bytes);
        }
        match self.push(spares, head, bytes.as_slice()) {
            Ok(()) => Ok(()),
            Err(_) => Err(bytes),
        }
    }

    /// Gives the first bytes of the first piece. They are kept.
    pub fn give(&mut self, len: usize)
        requires { len ≤ length (first_of (pieces self.old)) }
        ensures pieces { pieces self.new ≡ after_first len (pieces self.old) }
        ensures kept { kept self.new ≡ kept self.old ++ take len (first_of (pieces self.old)) }
    {
        let block = block_at(&self.sealed, &self.last, self.lent).len();
        self.used += len;
        if self.lent < self.sealed.len() && self.used == block {
            self.lent += 1;
            self.used = 0;
        }
    }

    /// Returns what is shown of the first piece. It is empty only if all bytes were given.
    pub fn shown_first(&self) -> &[u8]
        ensures bytes { result.now ≡ shown_first_of (pieces self.now) }
        ensures filled { result.now ≡ [] → concat (pieces self.now) ≡ [] }
    {
        let piece = self.first();
        &piece[..piece.len().min(MOST)]
    }

    /// Returns what is shown of the second piece.
    pub fn shown_second(&self) -> &[u8]
        ensures { result.now ≡ shown_second_of (pieces self.now) }
    {
        let room = MOST.saturating_sub(self.first().len());
        let piece = self.second();
        &piece[..piece.len().min(room)]
    }

    /// Gives the first of the bytes that are shown. They are kept.
    pub fn give_shown(&mut self, len: usize)
        requires { len ≤ length (shown (pieces self.old)) }
        ensures pieces { pieces self.new ≡ after_shown len (pieces self.old) }
        ensures waiting { concat (pieces self.new) ≡ drop len (concat (pieces self.old)) }
        ensures kept { kept self.new ≡ kept self.old ++ take len (concat (pieces self.old)) }
    {
        let first = self.first().len();
        if len <= first {
            self.give(len);
        } else {
            self.give(first);
            self.give(len - first);
        }
    }

    /// Gives the first of the bytes that are shown. If they are not to be kept they are freed.
    pub fn hand_over(&mut self, spares: &mut Spares, len: usize, keep: bool)
        requires within { len ≤ length (shown (pieces self.old)) }
        requires none { keep ≡ false → kept self.old ≡ [] }
        ensures pieces { pieces self.new ≡ after_shown len (pieces self.old) }
        ensures waiting { concat (pieces self.new) ≡ drop len (concat (pieces self.old)) }
        ensures kept { kept self.new ≡ (if keep then kept self.old ++ take len (concat (pieces self.old)) else kept self.old) }
    {
        self.give_shown(len);
        if !keep {
            self.free(spares, len);
        }
    }

    /// Returns the first of the bytes that are kept, as far as they lie in one slice.
    pub fn first_kept(&self) -> &[u8]
        ensures { IsStartOf (kept self.now) result.now }
    {
        let block = block_at(&self.sealed, &self.last, 0);
        if self.lent == 0 {
            return &block[self.freed..self.used];
        }
        &block[self.freed..]
    }

    /// Frees the first `len` bytes that are kept.
    pub fn free(&mut self, spares: &mut Spares, len: usize)
        requires within { len ≤ length (kept self.old) }
        requires few { length (kept self.old) < 2 ^ 62 }
        ensures kept { kept self.new ≡ drop len (kept self.old) }
        ensures pieces { pieces self.new ≡ pieces self.old }
    {
        let (lent, freed) = drop_freed(&mut self.sealed, spares, self.lent, self.freed + len);
        let (used, freed) = reuse(
            &self.sealed,
            &mut self.last,
            spares,
            self.alloc,
            self.used,
            freed,
        );
        self.lent = lent;
        self.used = used;
        self.freed = freed;
    }

    /// Removes the last `excess` bytes that were not given.
    pub fn cut(&mut self, spares: &mut Spares, excess: usize)
        requires { excess ≤ length (concat (pieces self.old)) }
        ensures pieces { concat (pieces self.new)
            ≡ take (length (concat (pieces self.old)) - excess) (concat (pieces self.old)) }
        ensures kept { kept self.new ≡ kept self.old }
    {
        cut_last(&mut self.sealed, &mut self.last, spares, self.lent, excess);
        let (used, freed) = reuse(
            &self.sealed,
            &mut self.last,
            spares,
            self.alloc,
            self.used,
            self.freed,
        );
        self.used = used;
        self.freed = freed;
    }
}
