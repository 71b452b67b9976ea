//! What a network does to what it carries.
use crate::random::Random;

/// What a network does to what it carries, and what it allows.
#[derive(Clone, Copy, Debug, PartialEq, Eq)]
pub struct Conditions {
    /// The largest piece of a stream that is taken or delivered at once, in bytes.
    pub max_piece: usize,
    /// One in so many pieces is delayed. Never, if 0; 1 would delay all of them for ever.
    pub delays: usize,
    /// One in so many datagrams is lost. None, if 0.
    pub losses: usize,
    /// How many bytes of a stream may be sent that the receiver has not read.
    pub stream_window: usize,
    /// How many bytes of all streams may be sent that the receiver has not read.
    pub connection_window: usize,
    /// How many streams of each kind an end may have open.
    pub max_streams: u64,
    /// The largest datagram, in bytes.
    pub max_datagram: usize,
    /// Whether the sender of bytes hears that they arrived.
    pub acks: bool,
}

impl Conditions {
    /// Everything arrives at once, in large pieces.
    pub fn ideal() -> Self {
        Conditions {
            max_piece: 16_384,
            delays: 0,
            losses: 0,
            stream_window: 65_536,
            connection_window: 1_048_576,
            max_streams: 100,
            max_datagram: 1_200,
            acks: false,
        }
    }

    /// Small pieces, delays, small windows and few streams.
    pub fn harsh() -> Self {
        Conditions {
            max_piece: 900,
            delays: 2,
            losses: 0,
            stream_window: 4_096,
            connection_window: 20_000,
            max_streams: 6,
            max_datagram: 1_200,
            acks: true,
        }
    }
}

/// What happens next on a network, by its seed.
#[derive(Drop)]
pub(crate) struct Chance {
    random: Random,
    pub(crate) conditions: Conditions,
}

impl Chance {
    /// Creates what happens under these conditions.
    pub(crate) fn new(conditions: Conditions, seed: u64) -> Self {
        Chance {
            random: Random::new(seed),
            conditions,
        }
    }

    /// Returns whether the next piece is delayed.
    pub(crate) fn delays(&mut self) -> bool {
        self.random.one_in(self.conditions.delays)
    }

    /// Returns whether the next datagram is lost.
    pub(crate) fn loses(&mut self) -> bool {
        self.random.one_in(self.conditions.losses)
    }

    /// Returns how many of these are delivered now, the first ones: all, if nothing is delayed.
    pub(crate) fn some_of(&mut self, len: usize) -> usize {
        if self.conditions.delays == 0 {
            return len;
        }
        self.random.below(len.saturating_add(1))
    }

    /// Returns the size of the next piece. If pieces are delayed, they have any size, and half of them few bytes.
    pub(crate) fn piece(&mut self) -> usize {
        let most = self.conditions.max_piece;
        if self.conditions.delays == 0 {
            return most;
        }
        let most = if self.random.one_in(2) {
            most.min(8)
        } else {
            most
        };
        self.random.below(most).saturating_add(1)
    }
}
