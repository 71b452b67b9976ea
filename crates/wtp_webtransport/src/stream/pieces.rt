//! The count of a piece that is given at once.
ghost use Rattle.std.specs.Prelude.{◌≡◌};
ghost use Rattle.wtp_webtransport.specs.Ahead.{counts as counts_is};

use crate::connection::messages::fits;
use crate::stream::{Part, Stream, Unread};

impl Stream {
    // Counts a piece of its content, or of its bytes, of whose DATA frame so many bytes are still to come
    // after it. Returns whether the piece is given; else nothing changes.
    #[inline(always)]
    pub(crate) fn counts(&mut self, piece: u64, remaining: u64) -> bool
        ensures { (result, self.new) ≡ counts_is self.old piece remaining }
    {
        match self.unread {
            Unread::Nothing => {}
            _ => return false,
        }
        match &mut self.part {
            Part::Body(message) => {
                if !fits(message.left(), piece, remaining) {
                    return false;
                }
                message.data(piece).is_ok()
            }
            Part::OfSession | Part::Tunnel => true,
            _ => false,
        }
    }
}
