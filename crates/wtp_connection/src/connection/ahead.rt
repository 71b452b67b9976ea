//! A piece of DATA, or of a stream of a session, that is ahead in the bytes of a stream.
ghost use Rattle.std.specs.Prelude.{IfSome};
ghost use Rattle.wtp_connection.specs.Ahead.{IsAhead};

use crate::connection::Connection;
use crate::stream::Stream;
use wtp_frames::reader::ahead::Ahead;

impl Connection {
    /// Returns the piece of DATA, or of a stream of a session, that [`receive`](Self::receive) would
    /// return. [`pass`](Stream::pass) goes on after it. With `None` only `receive` says what follows.
    #[inline(always)]
    pub fn data_ahead(&self, stream: &Stream, bytes: &[u8]) -> Option<Ahead>
        ensures { IfSome result (λ a. IsAhead a self.now stream.now bytes.now) }
    {
        if self.over {
            return None;
        }
        match stream {
            Stream::Frames(reader, _) => reader.data_ahead(bytes),
            Stream::Session(_) => {
                if bytes.len() == 0 {
                    return None;
                }
                Some(Ahead {
                    start: 0,
                    end: bytes.len(),
                    remaining: 0,
                })
            }
            _ => None,
        }
    }
}
