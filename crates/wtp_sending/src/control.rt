//! The control stream that this endpoint opens (RFC 9114, sections 5.2, 6.2.1, 7.2.4 and 7.2.6).
ghost use Rattle.std.specs.Prelude.{◌≡◌, ◌++◌, Ok, OnOk, OnErr, IfErr, MatchResult, length};
ghost use Rattle.wtp_core.specs.Varint.{shortest};
ghost use Rattle.wtp_wire.specs.Wire.{wire};
ghost use Rattle.wtp_sending.specs.Writing.{WritesAll, Fails, FailsAllocating};
ghost use Rattle.wtp_sending.specs.Control.{control_to, settings_bytes, after_settings, goaway_bytes, is_named as is_named_is, after_goaway};

pub mod words;

use crate::error::SendError;
use crate::write::{put_all, put_three};
use std::alloc::Global;
use wtp_core::bytes::BytesWriter;
use wtp_core::numbers::stream_type_ids;
use wtp_core::varint::VarInt;
use wtp_frames::endpoint::Side;
use wtp_wire::frame::Frame;
use wtp_wire::settings::Settings;

/// The type of a GOAWAY frame (RFC 9114, section 7.2.6).
const GOAWAY: u32 = 0x07;

/// The longest payload of SETTINGS, in bytes, that `wtp_frames` reads.
const MAX_SETTINGS: usize = 4096;

/// The control stream that this endpoint opens. There is no call that ends it, since it is never
/// ended (RFC 9114, section 6.2.1), and none that allows a push (section 7.2.7). It has no bytes.
#[derive(Clone, Copy)]
pub struct ControlSending {
    /// The side of the peer.
    to: Side,
    /// Whether SETTINGS were sent.
    settled: bool,
    /// The ID of the last GOAWAY.
    goaway: Option<VarInt>,
}

impl ControlSending {
    /// Creates the control stream to a peer of this side. Nothing is sent yet.
    pub fn new(to: Side) -> Self
        ensures { result ≡ control_to to }
    {
        ControlSending {
            to,
            settled: false,
            goaway: None,
        }
    }

    /// Returns the ID of the last GOAWAY: requests from it on, or pushes at a client, are not
    /// processed (RFC 9114, section 5.2).
    pub fn last_goaway(&self) -> Option<VarInt>
        ensures { result ≡ self.now.goaway }
    {
        self.goaway
    }

    /// Writes the type of the stream and SETTINGS, with which the stream begins (RFC 9114, sections
    /// 6.2.1 and 7.2.4).
    ///
    /// # Errors
    ///
    /// Nothing is written and nothing changes. Of several reasons the first is returned:
    /// [`SendError::Unexpected`] after the first call; [`SendError::TooLarge`] if the payload has more
    /// than 4096 bytes; [`SendError::Memory`]; and [`SendError::EndOfBuffer`].
    pub fn settings<W: BytesWriter>(
        &mut self,
        alloc: Global,
        settings: &Settings,
        out: &mut W,
    ) -> Result<(), SendError>
        ensures sent { OnOk result (after_settings self.old settings.now ≡ Ok self.new) }
        ensures refused { IfErr result (λ e. FailsAllocating (after_settings self.old settings.now)
            (W.room out.old) (length (settings_bytes settings.now)) e) }
        ensures kept { OnErr result (self.new ≡ self.old) }
        ensures written { WritesAll (settings_bytes settings.now) result (W.written out.old)
            (W.room out.old) (W.written out.new) (W.room out.new) }
        ensures target { W.target out.new ≡ W.target out.old }
    {
        if self.settled {
            return Err(SendError::Unexpected);
        }
        let mut payload = [0; MAX_SETTINGS];
        let Ok(frame) = settings.generate_frame_ref(&mut payload) else {
            return Err(SendError::TooLarge);
        };
        let bytes = first_bytes(alloc, &frame)?;
        put_all(bytes.as_slice(), out)?;
        self.settled = true;
        Ok(())
    }

    /// Writes GOAWAY: requests from this stream ID on are not processed, or at a client pushes from
    /// this push ID on (RFC 9114, section 5.2). An ID may be sent again, and a lower one.
    ///
    /// # Errors
    ///
    /// Nothing is written and nothing changes. [`SendError::Unexpected`] before SETTINGS;
    /// [`SendError::InvalidId`] at a server if the ID is not that of a bidirectional stream of a
    /// client; [`SendError::IdRises`] if it is above the last one; [`SendError::EndOfBuffer`]; and
    /// [`SendError::Memory`] if the writer grows and allocation fails.
    pub fn goaway<W: BytesWriter>(&mut self, id: VarInt, out: &mut W) -> Result<(), SendError>
        ensures sent { OnOk result (after_goaway self.old id ≡ Ok self.new) }
        ensures refused { IfErr result (λ e. Fails (after_goaway self.old id) W.grows
            (W.room out.old) (length (goaway_bytes id)) e) }
        ensures kept { OnErr result (self.new ≡ self.old) }
        ensures written { WritesAll (goaway_bytes id) result (W.written out.old) (W.room out.old)
            (W.written out.new) (W.room out.new) }
        ensures target { W.target out.new ≡ W.target out.old }
    {
        if !self.settled {
            return Err(SendError::Unexpected);
        }
        if !is_named(self.to, id) {
            return Err(SendError::InvalidId);
        }
        if let Some(last) = self.goaway {
            if id > last {
                return Err(SendError::IdRises);
            }
        }
        put_three(
            VarInt::from_u32(GOAWAY),
            VarInt::from_u32(id.size() as u32),
            id,
            out,
        )?;
        self.goaway = Some(id);
        Ok(())
    }
}

/// Returns whether the ID of a GOAWAY to this side may name a request, or any push.
fn is_named(to: Side, id: VarInt) -> bool
    ensures { result ≡ is_named_is to id }
{
    match to {
        Side::Client => id.into_inner() % 4 == 0,
        Side::Server => true,
    }
}

/// Returns the type of the stream, and SETTINGS.
fn first_bytes(alloc: Global, frame: &Frame<'_>) -> Result<Vec<u8>, SendError>
    ensures { MatchResult result (λ bytes. bytes.items ≡ shortest 0x00 ++ wire frame.now)
        (λ e. e ≡ SendError.Memory) }
{
    let mut bytes = Vec::new(alloc);
    if bytes.put_varint(stream_type_ids::CONTROL_STREAM).is_err() {
        return Err(SendError::Memory);
    }
    if frame.write(&mut bytes).is_err() {
        return Err(SendError::Memory);
    }
    Ok(bytes)
}
