//! Priorities, and the places of streams in the order of sending (RFC 9218, sections 4 and 10).

ghost use Rattle.std.specs.Prelude.{◌≡◌, ◌<◌, ◌==◌, ◌&&◌};
ghost use Rattle.vesgrauf_ready.specs.Ranks.{rank_of, before, is_same, is_shared};

/// The priority of a stream (RFC 9218, section 4).
#[derive(Clone, Copy, Debug, PartialEq, Eq)]
pub struct Priority {
    /// 0 is the most urgent, 7 the least; a larger number counts as 7 (section 4.1).
    pub urgency: u8,
    /// Whether the peer uses the bytes as they come (section 4.2).
    pub incremental: bool,
}

impl Priority {
    /// The priority of a stream of which nothing is said.
    pub const DEFAULT: Priority = Priority {
        urgency: 3,
        incremental: false,
    };
}

/// What a stream is for, as far as the order of sending goes.
#[derive(Clone, Copy, Debug, PartialEq, Eq)]
pub enum Kind {
    /// The control stream, or one of QPACK's streams: it comes before all others (RFC 9114, section
    /// 6.2.1; RFC 9204, section 4.2).
    Critical,
    /// A stream with a priority.
    Message(Priority),
}

/// The place of a stream in the order of sending: its class, and in a class its ID.
#[derive(Clone, Copy, PartialEq, Eq, PartialOrd, Ord)]
pub(crate) struct Rank {
    pub(crate) class: u8,
    pub(crate) id: u64,
}

impl Rank {
    /// Returns the place of a stream.
    pub(crate) fn new(id: u64, kind: Kind) -> Self
        ensures is { result ≡ rank_of id kind }
        ensures few { result.class < 17 }
    {
        let class = match kind {
            Kind::Critical => 0,
            Kind::Message(priority) => {
                2 * priority.urgency.min(7) + if priority.incremental { 2 } else { 1 }
            }
        };
        Rank { class, id }
    }

    /// Returns whether it is the same place.
    pub(crate) fn is_same(&self, other: &Rank) -> bool
        ensures { result ≡ is_same self.now other.now }
    {
        self.class == other.class && self.id == other.id
    }

    /// Returns whether it comes before the other place.
    pub(crate) fn is_before(&self, other: &Rank) -> bool
        ensures { result ≡ before self.now other.now }
    {
        self.class < other.class || (self.class == other.class && self.id < other.id)
    }

    /// Returns whether the streams of the class share the bandwidth.
    pub(crate) fn is_shared(&self) -> bool
        ensures { result ≡ is_shared self.now.class }
    {
        self.class > 0 && self.class % 2 == 0
    }
}
