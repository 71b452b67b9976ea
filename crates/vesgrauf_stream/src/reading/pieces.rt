//! The next piece of content, where no bytes of the stream are kept.
ghost use Rattle.std.specs.Prelude.{◌≡◌, MatchOption};
ghost use Rattle.vesgrauf_stream.specs.declared.bytes.Bytes.TheVariants.{Input};
ghost use Rattle.vesgrauf_stream.specs.Pieces.{HearsPiece};
ghost use Rattle.vesgrauf_stream.specs.Reading.{kept_of};

use crate::bytes::Chunk;
use crate::reading::Reading;
use wtp_webtransport::connection::Connection;

impl Reading {
    /// Returns the piece of content, or of a stream of a session, that is next in the input: what
    /// [`next`](Self::next) would hear. With `None` nothing changes, and only `next` says what is heard.
    #[inline(always)]
    pub fn next_piece<'a>(
        &mut self,
        shared: &mut Connection,
        input: &mut Chunk<'a>,
    ) -> Option<&'a [u8]>
        ensures heard { MatchOption result
            ((shared.new ≡ shared.old) × (self.new ≡ self.old) × (input.new ≡ input.old))
            (λ p. HearsPiece (Input p) shared.old self.old input.old shared.new self.new input.new) }
        ensures kept { kept_of self.new ≡ kept_of self.old }
        ensures ended { self.new.ended ≡ self.old.ended }
    {
        if self.len() > 0 {
            return None;
        }
        let (consumed, piece) = shared.receive_piece(&mut self.stream, input.bytes)?;
        input.consume(consumed);
        Some(piece)
    }
}
