//! In which order the streams of a recorded connection are judged.
ghost use Rattle.std.specs.Prelude.{◌≡◌, ◌-◌, ◌*◌, ◌/◌, ◌%◌, ◌<◌};
ghost use Rattle.wt_inspect_verdicts.specs.Turns.{rank_of};

use wt_inspect_connection::list::is_bidirectional;
use wt_inspect_connection::purpose::Purpose;

/// What a stream is judged with, in the order of the variants.
#[derive(Clone, Copy, Debug, PartialEq, Eq, PartialOrd, Ord)]
pub(crate) enum Rank {
    /// The control streams.
    Control,
    /// The other unidirectional streams that are of no session.
    Unidirectional,
    /// The requests, or their responses.
    Message,
    /// The streams of sessions, and those that are for nothing.
    Session,
}

/// When a stream is judged. Streams are in order by these fields, from the first one on.
#[derive(Clone, Copy, Debug, PartialEq, Eq, PartialOrd, Ord)]
pub(crate) struct Turn {
    /// What it is judged with.
    pub(crate) rank: Rank,
    /// How many insertions into the dynamic table its first field section needs.
    pub(crate) need: u64,
    /// Its ID.
    pub(crate) id: u64,
}

/// Returns what a stream is judged with.
pub(crate) fn rank_of(id: u64, purpose: Purpose) -> Rank
    ensures { result ≡ rank_of id purpose }
{
    match purpose {
        Purpose::Control => Rank::Control,
        Purpose::Request => Rank::Message,
        Purpose::Session(_) => Rank::Session,
        Purpose::Encoder | Purpose::Decoder | Purpose::Push => Rank::Unidirectional,
        Purpose::Other if is_bidirectional(id) => Rank::Session,
        Purpose::Other => Rank::Unidirectional,
    }
}

/// Returns how many insertions a field section needs whose encoded count this is, where a section with
/// the need `before` was sent about as early. The table has at most `table` bytes, and there are
/// `total` insertions (RFC 9204, section 4.5.1.1).
#[tactic(auto, using(crate::proofs::NeedLemmas::rounds, crate::proofs::NeedLemmas::one_round_more))]
pub(crate) fn need_of(count: u64, table: u64, total: u64, before: u64) -> u64
    ensures none { count ≡ 0 → result ≡ 0 }
    ensures encoded { 0 < count → 0 < table / 32
        → result % (2 * (table / 32)) ≡ (count - 1) % (2 * (table / 32)) }
{
    let most = table / 32;
    if count == 0 || most == 0 {
        return 0;
    }
    let range = 2 * most;
    let least = (count - 1) % range;
    let from = before.saturating_sub(most);
    if before < most || from < least {
        return least;
    }
    let last = least + range * ((from - least) / range);
    if range <= total.saturating_sub(last) {
        last + range
    } else {
        last
    }
}
