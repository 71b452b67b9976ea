//! Numbers that look random, and are the same each time.

/// Numbers that look random, and are the same for the same seed.
#[derive(Drop)]
pub struct Random {
    state: u64,
}

impl Random {
    /// Creates the numbers of a seed.
    pub fn new(seed: u64) -> Self {
        Random { state: seed }
    }

    /// Returns a number below `limit`, or 0.
    pub fn below(&mut self, limit: usize) -> usize {
        self.state = self
            .state
            .wrapping_mul(6364136223846793005)
            .wrapping_add(1442695040888963407);
        let high = (self.state >> 33) as usize;
        high.checked_rem(limit).unwrap_or(0)
    }

    /// Returns true once in `calls` calls, on average. Never if `calls` is 0.
    pub fn one_in(&mut self, calls: usize) -> bool {
        calls > 0 && self.below(calls) == 0
    }
}
