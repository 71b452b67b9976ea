//! The words of the last item without contents.
ghost use Rattle.std.specs.Prelude.{◌≡◌, IfOk, IsTrue};
ghost use Rattle.wt_inspection_views.specs.Shapes.{IsLike};

use super::words::{PLACE_WIDTH, add_shape_words};
use crate::clean::CleanWords;
use crate::shape::Shape;
use itoa::Buffer;
use std::alloc::{AllocError, Global};

/// The words after the offset in the first line of an item, which the lines of items like it share.
#[derive(Drop)]
pub(super) struct KeptWords {
    /// The item.
    shape: Shape,
    /// The length of the offset, or the width of its column if it is longer.
    place: usize,
    words: CleanWords,
}

impl KeptWords {
    /// Makes the words that follow an offset of this length in the first line of an item of this
    /// shape.
    ///
    /// Returns [`AllocError`] if allocation fails.
    pub(super) fn new(alloc: Global, place: usize, shape: &Shape) -> Result<Self, AllocError>
        ensures shape { IfOk result (λ kept. IsLike kept.shape shape.now) }
        ensures place { IfOk result (λ kept. kept.place ≡ place) }
    {
        let mut words = String::new(alloc);
        add_shape_words(&mut words, place, shape)?;
        Ok(KeptWords {
            shape: shape.copied(),
            place,
            words: CleanWords::of(alloc, words.as_str())?,
        })
    }

    /// Returns whether these are the words that follow an offset of this length in the first line of
    /// an item of this shape.
    pub(super) fn follows(&self, place: usize, shape: &Shape) -> bool
        ensures shape { IsTrue result → IsLike self.now.shape shape.now }
        ensures place { IsTrue result → self.now.place ≡ place }
    {
        self.place == place && self.shape.is_like(shape)
    }

    /// Returns the words, which follow an offset of this length in the first line of an item of this
    /// shape.
    pub(super) fn words(&self, place: usize, shape: &Shape) -> &CleanWords
        requires shape { IsLike self.now.shape shape.now }
        requires place { self.now.place ≡ place }
        ensures { result.now ≡ self.now.words }
    {
        &self.words
    }
}

/// Returns the length of an offset, or the width of its column if it is longer.
pub(super) fn place_len(at: usize) -> usize {
    if at >= 10_000 {
        return PLACE_WIDTH;
    }
    let mut buffer = Buffer::new();
    buffer.format(at).len()
}
