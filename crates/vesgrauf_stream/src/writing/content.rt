//! Content of a message, bytes of a stream without messages, and the end of both.
ghost use Rattle.std.specs.Prelude.{◌≡◌, ◌≤◌, ◌++◌, ◌==◌, [], if◌then◌else◌, true, Ok, OnOk, OnErr, IfOk, IfErr, MatchResult, length, take};
ghost use Rattle.wtp_sending.specs.Message.{data_head};
ghost use Rattle.vesgrauf_stream.specs.Writing.{after_frame, part_head, frame_head, content_at, raw_at, Sends, RefusesContent, Ends, Pushes, RefusesBy};

use crate::error::{NotGiven, NotSent};
use crate::writing::Writing;
use crate::writing::half::Half;
use vesgrauf_queue::spares::Spares;
use wtp_core::bytes::BufferWriter;
use wtp_sending::error::SendError;
use wtp_sending::message::Sending;

/// The half after a call, and the head of a DATA frame that is to be queued before its bytes.
#[derive(Drop)]
struct Announced {
    half: Half,
    head: [u8; 16],
    len: usize,
}

impl Writing {
    /// Queues content of a message, in one DATA frame, or bytes of a stream without messages as they are; all of them
    /// or none. Content of no bytes is no frame. `fin`: the stream ends after them. Returns whether there is room
    /// after them; if not, a `Writable` is owed.
    ///
    /// # Errors
    ///
    /// Nothing changes. Of several reasons the first is returned: [`NotSent::None`] if there is no own half, or no
    /// message began; [`NotSent::Over`] if it was finished or reset; [`NotSent::Send`] with
    /// [`SendError::Unexpected`] before HEADERS of a response, or with the error of [`Sending::data`], or of
    /// [`Sending::finish`] for the end; [`NotSent::TooLong`]; and [`SendError::Memory`].
    pub fn send(&mut self, spares: &mut Spares, bytes: &[u8], fin: bool) -> Result<bool, NotSent>
        ensures ok { IfOk result (λ room. Sends bytes.now fin room self.old self.new) }
        ensures err { IfErr result (λ e. RefusesContent self.old (length bytes.now) fin e) }
        ensures kept { OnErr result (self.new ≡ self.old) }
    {
        let next = self.announce(bytes.len(), fin)?;
        let room = self.queue.push(spares, &next.head[..next.len], bytes)?;
        self.take(next.half, fin);
        Ok(room)
    }

    /// Queues bytes as [`send`](Self::send) does. 4,096 bytes or more are not copied.
    ///
    /// # Errors
    ///
    /// As of [`send`](Self::send), with the bytes. Nothing changes.
    pub fn send_owned(
        &mut self,
        spares: &mut Spares,
        bytes: Vec<u8>,
        fin: bool,
    ) -> Result<bool, NotGiven>
        ensures ok { IfOk result (λ room. Sends bytes.items fin room self.old self.new) }
        ensures err { IfErr result (λ e. RefusesContent self.old (length bytes.items) fin e.why
            × (e.bytes ≡ bytes)) }
        ensures kept { OnErr result (self.new ≡ self.old) }
    {
        let next = match self.announce(bytes.len(), fin) {
            Ok(next) => next,
            Err(why) => return Err(NotGiven { why, bytes }),
        };
        match self.queue.push_owned(spares, &next.head[..next.len], bytes) {
            Ok(room) => {
                self.take(next.half, fin);
                Ok(room)
            }
            Err(refused) => Err(NotGiven {
                why: NotSent::from(refused.why),
                bytes: refused.bytes,
            }),
        }
    }

    /// Ends the stream after what is queued.
    ///
    /// # Errors
    ///
    /// Those of [`send`](Self::send) with no bytes. Nothing changes.
    pub fn finish(&mut self) -> Result<(), NotSent>
        ensures { MatchResult result (λ u. Ends self.old self.new)
            (λ e. (self.new ≡ self.old) × (content_at self.old 0 true ≡ Err e)) }
    {
        let next = self.announce(0, true)?;
        self.take(next.half, true);
        Ok(())
    }

    /// Queues bytes that the connection itself says on a stream without messages, as they are.
    ///
    /// # Errors
    ///
    /// Nothing changes. Those of [`send`](Self::send), and [`SendError::Unexpected`] on a stream with messages.
    pub fn push(&mut self, spares: &mut Spares, bytes: &[u8]) -> Result<(), NotSent>
        ensures ok { OnOk result (Pushes bytes.now self.old self.new) }
        ensures err { IfErr result (λ e. RefusesBy (raw_at self.old) self.old (length bytes.now) e) }
        ensures kept { OnErr result (self.new ≡ self.old) }
    {
        self.check_raw()?;
        let _room = self.queue.push(spares, &[], bytes)?;
        Ok(())
    }

    // Checks that bytes may be queued as they are.
    fn check_raw(&self) -> Result<(), NotSent>
        ensures { result ≡ raw_at self.now }
    {
        self.check()?;
        if self.half.is_raw() {
            Ok(())
        } else {
            Err(NotSent::Send(SendError::Unexpected))
        }
    }

    // Returns the half after so many bytes, and maybe the end, with what is queued before them.
    fn announce(&self, len: usize, fin: bool) -> Result<Announced, NotSent>
        ensures { MatchResult result (λ x. (content_at self.now len fin ≡ Ok x.half)
            × (take x.len x.head ≡ frame_head self.now.half len) × (x.len ≤ 16))
            (λ e. content_at self.now len fin ≡ Err e) }
    {
        self.check()?;
        let mut head = [0; 16];
        if self.half.is_raw() {
            return Ok(Announced {
                half: self.half,
                head,
                len: 0,
            });
        }
        let mut next = self.half.message()?;
        let size = put_data(&mut next, len, &mut head)?;
        if fin {
            next.finish()?;
        }
        Ok(Announced {
            half: Half::Message(next),
            head,
            len: size,
        })
    }
}

// Writes the head of a DATA frame of which all bytes follow, to the start of a buffer of 16 bytes; none, if there are no
// bytes. Returns its length.
#[tactic(auto, using(crate::proofs::WritingLemmas::fails_within, crate::proofs::WritingLemmas::data_fits))]
fn put_data(message: &mut Sending, len: usize, head: &mut [u8]) -> Result<usize, SendError>
    requires { length head.old ≡ 16 }
    ensures written { MatchResult result (λ size. (after_frame len message.old ≡ Ok message.new) × (size ≤ 16)
        × (take size head.new ≡ part_head len))
        (λ e. after_frame len message.old ≡ Err e) }
    ensures room { length head.new ≡ 16 }
{
    if len == 0 {
        return Ok(0);
    }
    let mut out = BufferWriter::new(head);
    message.data(len as u64, &mut out)?;
    let size = out.offset();
    message.sent(len as u64)?;
    Ok(size)
}
