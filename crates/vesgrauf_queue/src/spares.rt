//! Blocks that are used again.
ghost use Rattle.std.specs.Prelude.{◌≡◌, ◌≤◌, [], IfOk, vec_len, vec_capacity};

use std::alloc::{AllocError, Global};

/// How many bytes a block has room for, unless it is made for more or for a head alone.
pub(crate) const BLOCK: usize = 16_384;

/// How many blocks are spare at most.
const MOST: usize = 8;

/// Blocks that no queue needs now: at most eight of 16 KiB, for all queues of a connection. So a queue that is emptied
/// takes no memory, and one that is filled again allocates none.
#[derive(Drop)]
pub struct Spares {
    /// The blocks.
    blocks: Vec<Vec<u8>>,
    /// The allocator.
    alloc: Global,
    ghost few: { vec_len blocks ≤ 8 },
}

impl Spares {
    /// Creates the place for them. Nothing is allocated.
    pub fn new(alloc: Global) -> Self
        ensures { result.blocks.items ≡ [] }
    {
        Spares {
            blocks: Vec::new(alloc),
            alloc,
        }
    }

    /// Returns an empty block of this capacity: a spare one, if there is one of it, or a new one.
    ///
    /// # Errors
    ///
    /// If memory is refused.
    pub(crate) fn take(&mut self, capacity: usize) -> Result<Vec<u8>, AllocError>
        ensures empty { IfOk result (λ block. block.items ≡ []) }
        ensures room { IfOk result (λ block. capacity ≤ vec_capacity block) }
    {
        if capacity == BLOCK {
            if let Some(mut block) = self.blocks.pop() {
                block.clear();
                if block.capacity() >= capacity {
                    return Ok(block);
                }
            }
        }
        Vec::with_capacity(self.alloc, capacity)
    }

    /// Keeps a block that no queue needs, if it has the capacity of one and there is place for it. If not, it is freed.
    pub(crate) fn put(&mut self, block: Vec<u8>) {
        if block.capacity() == BLOCK && self.blocks.len() < MOST {
            let _ = self.blocks.push(block);
        }
    }
}
