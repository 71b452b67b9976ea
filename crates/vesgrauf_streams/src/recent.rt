//! Which slot a stream was last found in. It may be wrong of any stream: whoever reads it looks into the slot.

use std::alloc::Global;

/// The slots in which streams were last found, each at the place that the lowest bits of the ID say.
#[derive(Drop)]
pub(crate) struct Recent {
    slots: Vec<u32>,
}

/// How many places there are at first.
const FEWEST: usize = 64;

impl Recent {
    /// Creates one without places. Nothing is allocated.
    pub(crate) fn new(alloc: Global) -> Self {
        Recent {
            slots: Vec::new(alloc),
        }
    }

    /// Returns the place of a stream: those of one kind come one after another, and no two kinds share a place.
    #[inline(always)]
    fn place(&self, id: u64) -> usize {
        id as usize & self.slots.len().wrapping_sub(1)
    }

    /// Returns the slot that may have a stream.
    #[inline(always)]
    pub(crate) fn slot(&self, id: u64) -> Option<usize> {
        match self.slots.get(self.place(id)) {
            Some(slot) => Some(*slot as usize),
            None => None,
        }
    }

    /// Notes the slot of a stream.
    #[inline(always)]
    pub(crate) fn note(&mut self, id: u64, slot: usize) {
        let place = self.place(id);
        if let Some(noted) = self.slots.get_mut(place) {
            *noted = (slot & 0xFFFF_FFFF) as u32;
        }
    }

    /// Makes more places, if there are fewer than four for each slot: then as many streams of one kind as there are
    /// slots, one after another, have a place each. If memory is refused there are as many as before. Returns whether
    /// there are more now.
    pub(crate) fn widen(&mut self, slots: usize) -> bool {
        let len = self.slots.len();
        if len / 4 >= slots {
            return false;
        }
        let more = len.saturating_mul(2).max(FEWEST);
        self.slots.resize(more, 0).is_ok()
    }
}
