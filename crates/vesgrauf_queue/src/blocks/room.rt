//! Sealed blocks, and the last one.
ghost use Rattle.std.specs.Prelude.{◌≡◌, ◌+◌, ◌≤◌, ◌++◌, length, vec_len, vec_capacity};
ghost use Rattle.std.specs.List.{concat};
ghost use Rattle.std.specs.VecDeque.{deque_len};
ghost use Rattle.vesgrauf_queue.specs.Pieces.{first};
ghost use Rattle.vesgrauf_queue.specs.Layout.{parts, left_in, Freed, Cut, Reuses};

use crate::spares::Spares;
use std::alloc::Global;
use std::collections::VecDeque;
use std::mem::replace;

/// Returns the bytes of the block with this number, which is the last one if so many are not sealed.
pub(super) fn block_at<'a>(sealed: &'a VecDeque<Vec<u8>>, last: &'a Vec<u8>, at: usize) -> &'a [u8]
    ensures { result.now ≡ first (left_in (parts sealed.now.items) last.now.items at) }
{
    match sealed.get(at) {
        Some(block) => block.as_slice(),
        None => last.as_slice(),
    }
}

/// Adds bytes to a block that has room for them.
pub(super) fn fill(block: &mut Vec<u8>, head: &[u8], bytes: &[u8])
    requires { vec_len block.old + (length head.now + length bytes.now) ≤ vec_capacity block.old }
    ensures { block.new.items ≡ block.old.items ++ (head.now ++ bytes.now) }
{
    let _ = block.extend_from_slice(head);
    let _ = block.extend_from_slice(bytes);
}

/// Frees the blocks, of the first `lent`, that have no more than the first `freed` bytes. Returns both numbers without
/// them.
pub(super) fn drop_freed(
    sealed: &mut VecDeque<Vec<u8>>,
    spares: &mut Spares,
    lent: usize,
    freed: usize,
) -> (usize, usize)
    requires { lent ≤ deque_len sealed.old }
    ensures { Freed (parts sealed.old.items) lent freed (parts sealed.new.items) result.0 result.1 }
{
    let mut lent = lent;
    let mut freed = freed;
    'freeing: while lent > 0 {
        let len = match sealed.front() {
            Some(block) => block.len(),
            None => break,
        };
        if freed < len {
            break;
        }
        if let Some(block) = sealed.pop_front() {
            spares.put(block);
        }
        freed -= len;
        lent -= 1;
    }
    (lent, freed)
}

/// Removes the last `excess` bytes of the blocks after the first `lent` ones.
pub(super) fn cut_last(
    sealed: &mut VecDeque<Vec<u8>>,
    last: &mut Vec<u8>,
    spares: &mut Spares,
    lent: usize,
    excess: usize,
)
    requires few { lent ≤ deque_len sealed.old }
    requires within { excess ≤ length (concat (left_in (parts sealed.old.items) last.old.items lent)) }
    ensures { Cut (parts sealed.old.items) last.old.items lent excess (parts sealed.new.items) last.new.items }
{
    let mut excess = excess;
    'cutting: while excess > last.len() && sealed.len() > lent {
        let Some(block) = sealed.pop_back() else {
            break
        };
        excess -= last.len();
        spares.put(replace(last, block));
    }
    last.truncate(last.len() - excess);
}

/// Goes on without the last block, if it is the only one and all of its bytes were freed. Returns how many of the last
/// block's bytes are given and freed then.
pub(super) fn reuse(
    sealed: &VecDeque<Vec<u8>>,
    last: &mut Vec<u8>,
    spares: &mut Spares,
    alloc: Global,
    used: usize,
    freed: usize,
) -> (usize, usize)
    ensures { Reuses (parts sealed.now.items) last.old.items used freed last.new.items result.0 result.1 }
{
    if sealed.is_empty() && freed == last.len() {
        spares.put(replace(last, Vec::new(alloc)));
        return (0, 0);
    }
    (used, freed)
}
