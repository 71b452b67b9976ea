//! The session of which this is the own stream: its capsules, and the heads of its streams and datagrams.
ghost use Rattle.std.specs.Prelude.{◌≡◌, Ok, OnOk, OnErr, IfErr, length};
ghost use Rattle.wtp_sending.specs.Session.{in_session, datagram_head as datagram_head_of, drain_wire, close_data};
ghost use Rattle.wtp_sending.specs.Writing.{WritesAll, Fails};
ghost use Rattle.vesgrauf_stream.specs.Writing.{message_at, session_at, close_at, head_by, stream_head as stream_head_of, Drains, Closes, RefusesBy, RefusesOrFails, RefusesWith};

use crate::error::NotSent;
use crate::writing::Writing;
use crate::writing::half::Half;
use std::alloc::Global;
use vesgrauf_queue::spares::Spares;
use wtp_core::bytes::{BufferWriter, BytesWriter};

impl Writing {
    /// Checks that this is the own stream of an open session.
    ///
    /// # Errors
    ///
    /// Of several reasons the first is returned: [`NotSent::None`] if there is no own half, or no request came;
    /// [`NotSent::Over`] if it was finished or reset; and [`NotSent::Send`] with
    /// [`SendError::Unexpected`](wtp_sending::error::SendError::Unexpected) otherwise.
    pub fn check_session(&self) -> Result<(), NotSent>
        ensures { result ≡ session_at self.now }
    {
        let message = self.message()?;
        message.check_session()?;
        Ok(())
    }

    /// Queues the capsule that says that the session is to be closed soon.
    ///
    /// # Errors
    ///
    /// Nothing changes. Those of [`check_session`](Self::check_session); then [`NotSent::TooLong`]; and
    /// [`SendError::Memory`](wtp_sending::error::SendError::Memory).
    #[tactic(auto, using(crate::proofs::WritingLemmas::fails_within, crate::proofs::WritingLemmas::drain_len))]
    pub fn drain(&mut self, spares: &mut Spares) -> Result<(), NotSent>
        ensures ok { OnOk result (Drains self.old self.new) }
        ensures err { IfErr result (λ e. RefusesBy (session_at self.old) self.old (length drain_wire) e) }
        ensures kept { OnErr result (self.new ≡ self.old) }
    {
        let message = self.message()?;
        let mut frame = [0; 7];
        let mut out = BufferWriter::new(&mut frame);
        message.drain(&mut out)?;
        let len = out.offset();
        let _room = self.queue.push(spares, &[], &frame[..len])?;
        Ok(())
    }

    /// Queues the capsule that closes the session, with a code and a reason of the application, and the end.
    ///
    /// # Errors
    ///
    /// Nothing changes. Those of [`check_session`](Self::check_session); then
    /// [`SendError::TooLarge`](wtp_sending::error::SendError::TooLarge) if the reason has more than 1024 bytes;
    /// [`NotSent::TooLong`]; and [`SendError::Memory`](wtp_sending::error::SendError::Memory).
    pub fn close(
        &mut self,
        alloc: Global,
        spares: &mut Spares,
        code: u32,
        reason: &str,
    ) -> Result<(), NotSent>
        ensures ok { OnOk result (Closes code reason.now self.old self.new) }
        ensures err { IfErr result (λ e. RefusesOrFails (close_at self.old reason.now) self.old
            (length (close_data code reason.now)) e) }
        ensures kept { OnErr result (self.new ≡ self.old) }
    {
        let mut last = self.message()?;
        let mut frame = Vec::new(alloc);
        last.close(alloc, code, reason, &mut frame)?;
        let _room = self.queue.push(spares, &[], frame.as_slice())?;
        self.take(Half::Message(last), true);
        Ok(())
    }

    /// Writes the first bytes of a new stream of this session, after which come those of the application.
    ///
    /// # Errors
    ///
    /// Nothing is written. Those of [`check_session`](Self::check_session), and then those of the writer, in
    /// [`NotSent::Send`].
    pub fn stream_head<W: BytesWriter>(
        &self,
        bidirectional: bool,
        out: &mut W,
    ) -> Result<(), NotSent>
        ensures open { OnOk result (session_at self.now ≡ Ok tt) }
        ensures err { IfErr result (λ e. RefusesWith (λ s x. Fails (in_session s.place) W.grows (W.room out.old)
            (length (stream_head_of bidirectional s.id)) x) (message_at self.now) e) }
        ensures written { WritesAll (head_by (stream_head_of bidirectional) (message_at self.now)) result
            (W.written out.old) (W.room out.old) (W.written out.new) (W.room out.new) }
        ensures target { W.target out.new ≡ W.target out.old }
    {
        let message = self.message()?;
        if bidirectional {
            message.bidirectional(out)?;
        } else {
            message.unidirectional(out)?;
        }
        Ok(())
    }

    /// Writes the first bytes of a datagram of this session; its payload follows.
    ///
    /// # Errors
    ///
    /// Those of [`stream_head`](Self::stream_head). Nothing is written.
    pub fn datagram_head<W: BytesWriter>(&self, out: &mut W) -> Result<(), NotSent>
        ensures open { OnOk result (session_at self.now ≡ Ok tt) }
        ensures err { IfErr result (λ e. RefusesWith (λ s x. Fails (in_session s.place) W.grows (W.room out.old)
            (length (datagram_head_of s.id)) x) (message_at self.now) e) }
        ensures written { WritesAll (head_by datagram_head_of (message_at self.now)) result
            (W.written out.old) (W.room out.old) (W.written out.new) (W.room out.new) }
        ensures target { W.target out.new ≡ W.target out.old }
    {
        let message = self.message()?;
        message.datagram(out)?;
        Ok(())
    }
}
