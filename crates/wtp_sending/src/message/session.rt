//! What is sent of a session: the heads of its streams and datagrams, and its capsules
//! (draft-ietf-webtrans-http3-02, sections 4 and 5; RFC 9297, sections 2.1 and 3.2).
ghost use Rattle.std.specs.Prelude.{◌≡◌, ◌⊎◌, ◌<◌, ◌≤◌, Ok, OnOk, OnErr, IfErr, MatchResult, length};
ghost use Rattle.wtp_wire.specs.CloseSession.{close_wire};
ghost use Rattle.wtp_sending.specs.Writing.{WritesAll, Lacks, Fails, FailsAllocating};
ghost use Rattle.wtp_sending.specs.Session.{in_session, uni_head, bi_head, datagram_head, drain_wire, close_data, after_close};

use super::{Place, Sending};
use crate::error::SendError;
use crate::write::{put_all, put_frame, put_one, put_two};
use std::alloc::Global;
use std::borrow::CowSlice;
use wtp_core::bytes::BytesWriter;
use wtp_core::ids::QStreamId;
use wtp_core::numbers::{frame_kind_ids, stream_type_ids};
use wtp_wire::capsule::CapsuleError;
use wtp_wire::capsule::capsules::CloseWebTransportSession;
use wtp_wire::frame::Frame;

/// A DATA frame of five bytes with the capsule DRAIN_WEBTRANSPORT_SESSION (0x78ae), whose value is
/// empty (draft-ietf-webtrans-http3-07, section 4.6).
const DRAIN: [u8; 7] = [0x00, 0x05, 0x80, 0x00, 0x78, 0xae, 0x00];

impl Sending {
    /// Checks that the session of this stream is open: its request was answered with a 2xx status,
    /// and this end did not close it. Otherwise returns [`SendError::Unexpected`].
    pub fn check_session(&self) -> Result<(), SendError>
        ensures { result ≡ in_session self.now.place }
    {
        match self.place {
            Place::Session => Ok(()),
            _ => Err(SendError::Unexpected),
        }
    }

    /// Writes the first bytes of a unidirectional stream of the session, after which come those of
    /// the application (draft-ietf-webtrans-http3-02, section 4.1).
    ///
    /// # Errors
    ///
    /// Nothing is written. [`SendError::Unexpected`] if the session is not open;
    /// [`SendError::EndOfBuffer`]; and [`SendError::Memory`] if the writer grows and allocation
    /// fails.
    pub fn unidirectional<W: BytesWriter>(&self, out: &mut W) -> Result<(), SendError>
        ensures open { OnOk result (in_session self.now.place ≡ Ok tt) }
        ensures refused { IfErr result (λ e. Fails (in_session self.now.place) W.grows
            (W.room out.old) (length (uni_head self.now.id)) e) }
        ensures written { WritesAll (uni_head self.now.id) result (W.written out.old)
            (W.room out.old) (W.written out.new) (W.room out.new) }
        ensures target { W.target out.new ≡ W.target out.old }
    {
        self.check_session()?;
        put_two(
            stream_type_ids::WEBTRANSPORT_STREAM,
            self.id.into_varint(),
            out,
        )
    }

    /// Writes the first bytes of a bidirectional stream of the session, after which come those of
    /// the application (draft-ietf-webtrans-http3-02, section 4.2).
    ///
    /// # Errors
    ///
    /// Those of [`Sending::unidirectional`].
    pub fn bidirectional<W: BytesWriter>(&self, out: &mut W) -> Result<(), SendError>
        ensures open { OnOk result (in_session self.now.place ≡ Ok tt) }
        ensures refused { IfErr result (λ e. Fails (in_session self.now.place) W.grows
            (W.room out.old) (length (bi_head self.now.id)) e) }
        ensures written { WritesAll (bi_head self.now.id) result (W.written out.old)
            (W.room out.old) (W.written out.new) (W.room out.new) }
        ensures target { W.target out.new ≡ W.target out.old }
    {
        self.check_session()?;
        put_two(
            frame_kind_ids::WEBTRANSPORT_STREAM,
            self.id.into_varint(),
            out,
        )
    }

    /// Writes the first bytes of a datagram of the session, its quarter stream ID; the payload is
    /// all that follows (RFC 9297, section 2.1).
    ///
    /// # Errors
    ///
    /// Those of [`Sending::unidirectional`].
    pub fn datagram<W: BytesWriter>(&self, out: &mut W) -> Result<(), SendError>
        ensures open { OnOk result (in_session self.now.place ≡ Ok tt) }
        ensures refused { IfErr result (λ e. Fails (in_session self.now.place) W.grows
            (W.room out.old) (length (datagram_head self.now.id)) e) }
        ensures written { WritesAll (datagram_head self.now.id) result (W.written out.old)
            (W.room out.old) (W.written out.new) (W.room out.new) }
        ensures target { W.target out.new ≡ W.target out.old }
    {
        self.check_session()?;
        put_one(QStreamId::from_session_id(self.id).into_varint(), out)
    }

    /// Writes, in a DATA frame on this stream, the capsule that says that the session is to be
    /// closed soon (draft-ietf-webtrans-http3-07, section 4.6). Everything may be sent as before.
    ///
    /// # Errors
    ///
    /// Those of [`Sending::unidirectional`].
    pub fn drain<W: BytesWriter>(&self, out: &mut W) -> Result<(), SendError>
        ensures open { OnOk result (in_session self.now.place ≡ Ok tt) }
        ensures refused { IfErr result (λ e. Fails (in_session self.now.place) W.grows
            (W.room out.old) (length drain_wire) e) }
        ensures written { WritesAll drain_wire result (W.written out.old) (W.room out.old)
            (W.written out.new) (W.room out.new) }
        ensures target { W.target out.new ≡ W.target out.old }
    {
        self.check_session()?;
        put_drain(out)
    }

    /// Writes, in a DATA frame on this stream, the capsule that closes the session, with a code and
    /// a reason of the application (draft-ietf-webtrans-http3-02, section 5). The stream is to be
    /// ended with it, and the streams of the session are to be reset.
    ///
    /// # Errors
    ///
    /// Nothing is written and nothing changes. Of several reasons the first is returned:
    /// [`SendError::Unexpected`] if the session is not open; [`SendError::TooLarge`] if the reason
    /// has more than 1024 bytes; [`SendError::Memory`]; and [`SendError::EndOfBuffer`].
    pub fn close<W: BytesWriter>(
        &mut self,
        alloc: Global,
        code: u32,
        reason: &str,
        out: &mut W,
    ) -> Result<(), SendError>
        ensures sent { OnOk result (after_close self.old reason.now ≡ Ok self.new) }
        ensures refused { IfErr result (λ e. FailsAllocating (after_close self.old reason.now)
            (W.room out.old) (length (close_data code reason.now)) e) }
        ensures kept { OnErr result (self.new ≡ self.old) }
        ensures written { WritesAll (close_data code reason.now) result (W.written out.old)
            (W.room out.old) (W.written out.new) (W.room out.new) }
        ensures target { W.target out.new ≡ W.target out.old }
    {
        self.check_session()?;
        let capsule = close_capsule(alloc, code, reason)?;
        let Ok(frame) = Frame::try_new_data(CowSlice::Owned(capsule)) else {
            return Err(SendError::Memory);
        };
        put_frame(alloc, &frame, out)?;
        self.place = Place::Ended;
        Ok(())
    }
}

/// Returns the bytes of the capsule that closes a session.
fn close_capsule(alloc: Global, code: u32, reason: &str) -> Result<Vec<u8>, SendError>
    ensures { MatchResult result
        (λ bytes. (bytes.items ≡ close_wire (code, reason.now)) × (length reason.now ≤ 1024))
        (λ e. ((e ≡ SendError.Memory) × (length reason.now ≤ 1024))
        ⊎ ((e ≡ SendError.TooLarge) × (1024 < length reason.now))) }
{
    let close = match CloseWebTransportSession::new(alloc, code, reason) {
        Ok(close) => close,
        Err(CapsuleError::TooLong) => return Err(SendError::TooLarge),
        Err(CapsuleError::Memory) => return Err(SendError::Memory),
    };
    let mut bytes = Vec::new(alloc);
    match close.write(&mut bytes) {
        Ok(()) => Ok(bytes),
        Err(_) => Err(SendError::Memory),
    }
}

/// Writes the DATA frame of the capsule that announces the end of a session.
#[tactic(auto, unfolding(wtp_core::specs::Varint::shortest))]
fn put_drain<W: BytesWriter>(out: &mut W) -> Result<(), SendError>
    ensures written { WritesAll drain_wire result (W.written out.old) (W.room out.old)
        (W.written out.new) (W.room out.new) }
    ensures lacks { IfErr result (λ e. Lacks W.grows (W.room out.old) (length drain_wire) e) }
    ensures target { W.target out.new ≡ W.target out.old }
{
    put_all(&DRAIN, out)
}
