//! A piece of DATA that is ahead in the bytes.
ghost use Rattle.std.specs.Prelude.{◌≡◌, ◌<◌, ◌≤◌, IfSome};
ghost use Rattle.wtp_frames.specs.Ahead.{IsOpen, IsPart, IsAhead, past_piece};

use crate::reader::{Place, Reader, first_head};

/// A piece of DATA in the bytes that follow those consumed before.
#[derive(Clone, Copy)]
pub struct Ahead {
    /// The offset of its first byte.
    pub start: usize,
    /// The offset of the byte after it. The bytes up to there are those that it takes.
    pub end: usize,
    /// How many bytes of its frame are still to come after it.
    pub remaining: u64,
}

impl Reader {
    /// Returns the piece of DATA that [`next`](Reader::next) would return, within a frame or after the
    /// head of one. [`pass`](Self::pass) goes on after it. With `None` only `next` says what follows.
    #[inline(always)]
    pub fn data_ahead(&self, bytes: &[u8]) -> Option<Ahead>
        ensures { IfSome result (λ a. IsAhead a self.now bytes.now) }
    {
        match self.place {
            Place::Body | Place::Tunnel => {
                if self.remaining == 0 {
                    return self.frame_ahead(bytes);
                }
                if !self.streamed {
                    return None;
                }
                part(0, self.remaining, bytes.len())
            }
            _ => None,
        }
    }

    // Returns the piece after the head of a frame.
    #[inline(always)]
    fn frame_ahead(&self, bytes: &[u8]) -> Option<Ahead>
        requires none { self.now.remaining ≡ 0 }
        requires place { IsOpen self.now.place }
        ensures { IfSome result (λ a. IsAhead a self.now bytes.now) }
    {
        let (number, len, start) = first_head(bytes)?;
        if number != 0 || len == 0 {
            return None;
        }
        part(start, len, bytes.len())
    }

    /// Goes on after a piece of DATA that is [ahead](Self::data_ahead), after which so many bytes of its
    /// frame are still to come.
    #[inline(always)]
    pub fn pass(&mut self, remaining: u64)
        ensures { self.new ≡ past_piece remaining self.old }
    {
        if self.remaining == 0 {
            self.streamed = true;
            self.idle = 0;
        }
        self.remaining = remaining;
    }
}

// Returns the part of a payload that came from this offset on, if some of it did. So many bytes of it were
// to come.
#[inline(always)]
fn part(start: usize, payload: u64, len: usize) -> Option<Ahead>
    requires some { 0 < payload }
    requires within { start ≤ len }
    ensures { IfSome result (λ a. IsPart start payload len a) }
{
    let came = len - start;
    if came == 0 {
        return None;
    }
    if (came as u64) < payload {
        return Some(Ahead {
            start,
            end: len,
            remaining: payload - came as u64,
        });
    }
    Some(Ahead {
        start,
        end: start + payload as usize,
        remaining: 0,
    })
}
