//! A queue of hashes in which the last place of each, and the one before a place, is found without
//! going over the others.

ghost use Rattle.std.specs.Prelude.{◌≡◌, ℕ, ◌+◌, ◌-◌, ◌^◌, ◌<◌, ◌≤◌, [], ◌∷◌, ◌++◌, length, take, drop, slice_index, IfOk, OnOk, OnErr};
ghost use Rattle.std.specs.VecDeque.{deque_capacity};
ghost use Rattle.wtp_dynamic_encoder.specs.Chains.{hashes_of, is_hash, bucket_of, latest, IsChain, IsAt, HasRoom};

use std::alloc::{AllocError, Global};
use std::collections::VecDeque;

/// How many buckets there are at first.
const BUCKETS: usize = 16;

/// A hash, and one more than the last place before it of a hash in the same bucket. Places count from
/// the first hash that ever was in the queue, and what is not above those that left it means none.
#[derive(Clone, Copy)]
pub(crate) struct Link {
    hash: u64,
    earlier: u64,
}

/// The queue, the oldest hash first.
#[derive(Drop)]
pub(crate) struct Chain {
    /// For each bucket, one more than the last place of a hash that belongs to it.
    heads: Vec<u64>,
    links: VecDeque<Link>,
    /// How many hashes have left the queue.
    dropped: u64,
}

/// Returns the bucket of a hash.
#[tactic(auto, using(std::proofs::lemmas::Nat::and_le_r))]
fn bucket_of(buckets: usize, hash: u64) -> usize
    requires { 0 < buckets }
    ensures value { result ≡ bucket_of buckets hash }
    ensures within { result < buckets }
{
    (hash & (buckets as u64 - 1)) as usize
}

impl Chain {
    /// Creates an empty queue. Nothing is allocated.
    #[tactic(auto, using(crate::proofs::Chained::chain_none))]
    pub(crate) fn new(alloc: Global) -> Self
        ensures chain { IsChain result }
        ensures hashes { hashes_of result ≡ [] }
        ensures dropped { result.dropped ≡ 0 }
    {
        Chain {
            heads: Vec::new(alloc),
            links: VecDeque::new(alloc),
            dropped: 0,
        }
    }

    /// Creates an empty queue that so many hashes have left. Nothing is allocated.
    #[tactic(auto, using(crate::proofs::Chained::chain_none))]
    pub(crate) fn after(alloc: Global, dropped: u64) -> Self
        ensures chain { IsChain result }
        ensures hashes { hashes_of result ≡ [] }
        ensures dropped { result.dropped ≡ dropped }
    {
        Chain {
            heads: Vec::new(alloc),
            links: VecDeque::new(alloc),
            dropped,
        }
    }

    /// Returns one more than the last place of a hash, among those that one more than a place of its
    /// bucket leaves; or 0 if there is none.
    fn settle(&self, hash: u64, start: u64) -> usize
        requires chain { IsChain self.now }
        requires bucket { IsAt self.now hash start }
        ensures { result ≡ latest (is_hash hash) (take (start - self.now.dropped) (hashes_of self.now)) }
    {
        let mut at = start;
        while at > self.dropped {
            let place = (at - self.dropped - 1) as usize;
            let link = self.links[place];
            if link.hash == hash {
                return place + 1;
            }
            at = link.earlier;
        }
        0
    }

    /// Returns one more than the last place of a hash, or 0 if it is not in the queue.
    #[tactic(auto, using(crate::proofs::Chained::head_steps))]
    pub(crate) fn latest(&self, hash: u64) -> usize
        requires { IsChain self.now }
        ensures { result ≡ latest (is_hash hash) (hashes_of self.now) }
    {
        if self.heads.is_empty() {
            return 0;
        }
        let head = self.heads[bucket_of(self.heads.len(), hash)];
        self.settle(hash, head)
    }

    /// Returns one more than the last place of a hash before a place of it, or 0 if there is none.
    #[tactic(auto, using(crate::proofs::Chained::link_steps))]
    pub(crate) fn earlier(&self, hash: u64, place: usize) -> usize
        requires chain { IsChain self.now }
        requires within { place < length (hashes_of self.now) }
        requires same { slice_index (hashes_of self.now) place ≡ hash }
        ensures { result ≡ latest (is_hash hash) (take place (hashes_of self.now)) }
    {
        self.settle(hash, self.links[place].earlier)
    }

    /// Appends a hash, for which there is room.
    #[tactic(auto, using(crate::proofs::Chained::push_steps))]
    fn push(&mut self, hash: u64)
        requires chain { IsChain self.old }
        requires room { HasRoom self.old (deque_capacity self.old.links) }
        requires few { self.old.dropped + length (hashes_of self.old) ≤ 2 ^ 63 }
        ensures chain { IsChain self.new }
        ensures hashes { hashes_of self.new ≡ hashes_of self.old ++ hash ∷ [] }
        ensures dropped { self.new.dropped ≡ self.old.dropped }
        ensures capacity { deque_capacity self.new.links ≡ deque_capacity self.old.links }
        ensures buckets { length self.new.heads.items ≡ length self.old.heads.items }
    {
        let bucket = bucket_of(self.heads.len(), hash);
        let earlier = self.heads[bucket];
        self.heads[bucket] = self.dropped + self.links.len() as u64 + 1;
        self.links.push_back_reserved(Link { hash, earlier });
    }

    /// Removes the oldest hashes, until so many have left the queue.
    #[tactic(auto, using(crate::proofs::Chained::pop_steps))]
    pub(crate) fn drop_to(&mut self, dropped: u64)
        requires chain { IsChain self.old }
        requires more { self.old.dropped ≤ dropped }
        ensures chain { IsChain self.new }
        ensures hashes { hashes_of self.new ≡ drop (dropped - self.old.dropped) (hashes_of self.old) }
        ensures dropped { self.new.dropped ≡ dropped }
        ensures capacity { deque_capacity self.new.links ≡ deque_capacity self.old.links }
        ensures buckets { length self.new.heads.items ≡ length self.old.heads.items }
    {
        while self.dropped < dropped {
            let _oldest = self.links.pop_front();
            self.dropped += 1;
        }
    }

    /// Makes room for a hash, and appends it.
    ///
    /// Returns [`AllocError`] if allocation failed.
    pub(crate) fn append(&mut self, alloc: Global, hash: u64) -> Result<(), AllocError>
        requires chain { IsChain self.old }
        requires few { self.old.dropped + length (hashes_of self.old) ≤ 2 ^ 63 }
        ensures chain { OnOk result (IsChain self.new) }
        ensures hashes { OnOk result (hashes_of self.new ≡ hashes_of self.old ++ hash ∷ []) }
        ensures dropped { OnOk result (self.new.dropped ≡ self.old.dropped) }
    {
        self.reserve(alloc)?;
        self.push(hash);
        Ok(())
    }

    /// Removes the oldest hashes, until so many have left the queue, and appends one, for which there
    /// is room.
    pub(crate) fn advance(&mut self, dropped: u64, hash: u64)
        requires chain { IsChain self.old }
        requires room { HasRoom self.old (deque_capacity self.old.links) }
        requires more { self.old.dropped ≤ dropped }
        requires few { dropped + length (hashes_of self.old) ≤ 2 ^ 63 }
        ensures chain { IsChain self.new }
        ensures hashes { hashes_of self.new
            ≡ drop (dropped - self.old.dropped) (hashes_of self.old) ++ hash ∷ [] }
        ensures dropped { self.new.dropped ≡ dropped }
    {
        self.drop_to(dropped);
        self.push(hash);
    }

    /// Copies the queue into more buckets, with room for one more hash.
    fn grown(&self, alloc: Global) -> Result<Chain, AllocError>
        requires { self.now.dropped + length (hashes_of self.now) ≤ 2 ^ 63 }
        ensures chain { IfOk result (λ chain. IsChain chain) }
        ensures hashes { IfOk result (λ chain. hashes_of chain ≡ hashes_of self.now) }
        ensures dropped { IfOk result (λ chain. chain.dropped ≡ self.now.dropped) }
        ensures room { IfOk result (λ chain. HasRoom chain (deque_capacity chain.links)) }
    {
        let mut heads = Vec::new(alloc);
        heads.resize(self.heads.len().saturating_mul(2).max(BUCKETS), 0)?;
        let mut chain = Chain {
            heads,
            links: VecDeque::with_capacity(alloc, self.links.len() + 1)?,
            dropped: self.dropped,
        };
        for i in 0..self.links.len() {
            chain.push(self.links[i].hash);
        }
        Ok(chain)
    }

    /// Makes room for one more hash, so that there are at least as many buckets as hashes.
    ///
    /// Returns [`AllocError`] if allocation failed; the hashes stay.
    pub(crate) fn reserve(&mut self, alloc: Global) -> Result<(), AllocError>
        requires chain { IsChain self.old }
        requires few { self.old.dropped + length (hashes_of self.old) ≤ 2 ^ 63 }
        ensures chain { IsChain self.new }
        ensures hashes { hashes_of self.new ≡ hashes_of self.old }
        ensures dropped { self.new.dropped ≡ self.old.dropped }
        ensures room { OnOk result (HasRoom self.new (deque_capacity self.new.links)) }
    {
        if self.links.len() >= self.heads.len() {
            *self = self.grown(alloc)?;
            return Ok(());
        }
        self.links.reserve(1)
    }
}
