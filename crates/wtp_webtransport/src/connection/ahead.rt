//! A piece that is ahead in the bytes of a stream, and is given at once.
ghost use Rattle.std.specs.Prelude.{◌≡◌, ◌≤◌, length, MatchOption};
ghost use Rattle.wtp_frames.specs.Reading.{slice};
ghost use Rattle.wtp_webtransport.specs.Ahead.{GivesPiece};

use crate::connection::Connection;
use crate::stream::Stream;

impl Connection {
    /// Returns the next piece of the content of a message or of a tunnel, or of a stream of a session, and
    /// how many bytes are consumed with it: what [`receive`](Self::receive) would return as `Data` or
    /// `StreamData`. With `None` nothing changed, and only `receive` says what is next.
    #[inline(always)]
    pub fn receive_piece<'a>(
        &mut self,
        stream: &mut Stream,
        bytes: &'a [u8],
    ) -> Option<(usize, &'a [u8])>
        ensures { MatchOption result ((self.new ≡ self.old) × (stream.new ≡ stream.old))
            (λ p. GivesPiece p.0 p.1.now self.old stream.old bytes.now self.new stream.new) }
    {
        if self.over {
            return None;
        }
        let ahead = self.streams.data_ahead(&stream.frames, bytes)?;
        if !stream.counts((ahead.end - ahead.start) as u64, ahead.remaining) {
            return None;
        }
        stream.frames.pass(ahead.remaining);
        self.read = None;
        Some((ahead.end, part_of(bytes, ahead.start, ahead.end)))
    }
}

// Returns the bytes from `start` to `end`.
#[inline(always)]
fn part_of(bytes: &[u8], start: usize, end: usize) -> &[u8]
    requires order { start ≤ end }
    requires within { end ≤ length bytes.now }
    ensures { result.now ≡ slice start end bytes.now }
{
    &bytes[start..end]
}
