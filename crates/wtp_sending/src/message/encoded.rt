//! HEADERS whose sections refer to the dynamic table of an encoder (RFC 9204, sections 2.1 and 4.5).
ghost use Rattle.std.specs.Prelude.{◌≡◌, ℕ, List, [], ◌<◌, ◌≤◌, ◌^◌, OnOk, OnErr, IfOk, IfErr, MatchResult, length};
ghost use Rattle.wtp_sending.specs.Writing.{WritesAll};
ghost use Rattle.wtp_sending.specs.Encoded.{done, section_wire, AreProposals, IsEncoded, LacksEncoded, LacksFrame, SendsHeadAs, RefusesHeadersWith, SendsTrailersAs, RefusesTrailersWith};

use super::{Place, Sending};
use crate::error::SendError;
use crate::indexing::indexing_of;
use crate::write::put_frame;
use std::alloc::{AllocError, Global};
use std::borrow::CowSlice;
use wtp_core::bytes::BytesWriter;
use wtp_core::ids::SessionId;
use wtp_core::varint::VarInt;
use wtp_dynamic_encoder::encoder::QpackEncoder;
use wtp_dynamic_encoder::proposal::Proposal;
use wtp_fields::fields::FieldList;
use wtp_wire::frame::Frame;

impl Sending {
    /// Writes HEADERS as [`Sending::headers`] does, in a section that may refer to the dynamic table of
    /// an encoder, which inserts fields for it. Instructions for the encoder stream are appended to
    /// `instructions`; they have to be sent, whatever the call returns. How a field is indexed is that
    /// of [`indexing_of`], and the encoder's policy says the rest.
    ///
    /// # Errors
    ///
    /// Nothing is written, and the state and the sections that are not acknowledged stay. The error
    /// is that of [`Sending::check_headers`], if it has one: then nothing is inserted. Otherwise it is
    /// [`SendError::TooLarge`] if the section has 2^62 bytes or more, [`SendError::EndOfBuffer`], or
    /// [`SendError::Memory`]. Then entries may have been inserted, and the call can be made again.
    pub fn headers_with<W: BytesWriter>(
        &mut self,
        alloc: Global,
        list: &FieldList,
        encoder: &mut QpackEncoder,
        instructions: &mut Vec<u8>,
        out: &mut W,
    ) -> Result<(), SendError>
        ensures sent { OnOk result ((section : List ℕ)
            × SendsHeadAs section self.old list.now self.new
            × IsEncoded self.old.id list.now encoder.old encoder.new
            instructions.old.items instructions.new.items section
            × WritesAll (section_wire section) done (W.written out.old) (W.room out.old)
            (W.written out.new) (W.room out.new)) }
        ensures refused { IfErr result (λ e. RefusesHeadersWith self.old list.now encoder.old
            encoder.new instructions.old.items instructions.new.items (W.room out.old) e) }
        ensures kept { OnErr result (self.new ≡ self.old) }
        ensures unwritten { OnErr result ((W.written out.new ≡ W.written out.old)
            × (W.room out.new ≡ W.room out.old)) }
        ensures target { W.target out.new ≡ W.target out.old }
    {
        match self.head(list) {
            Ok((message, place)) => {
                match put_encoded(alloc, self.id, list, encoder, instructions, out) {
                    Ok(()) => {
                        self.message = message;
                        self.place = place;
                        Ok(())
                    }
                    Err(error) => Err(error),
                }
            }
            Err(error) => Err(error),
        }
    }

    /// Writes the trailers as [`Sending::trailers`] does, in a section that may refer to the dynamic
    /// table of an encoder, as [`Sending::headers_with`] does.
    ///
    /// # Errors
    ///
    /// Nothing is written, and the state and the sections that are not acknowledged stay.
    /// [`SendError::Unexpected`], [`SendError::DataMissing`], [`SendError::Malformed`], and
    /// [`SendError::TooLarge`] if the list is larger than the peer accepts, as of
    /// [`Sending::trailers`]: then nothing is inserted. [`SendError::TooLarge`] if the section has
    /// 2^62 bytes or more; [`SendError::EndOfBuffer`]; and [`SendError::Memory`]. Then entries may
    /// have been inserted, and the call can be made again.
    pub fn trailers_with<W: BytesWriter>(
        &mut self,
        alloc: Global,
        list: &FieldList,
        encoder: &mut QpackEncoder,
        instructions: &mut Vec<u8>,
        out: &mut W,
    ) -> Result<(), SendError>
        ensures sent { OnOk result ((section : List ℕ)
            × SendsTrailersAs section self.old list.now self.new
            × IsEncoded self.old.id list.now encoder.old encoder.new
            instructions.old.items instructions.new.items section
            × WritesAll (section_wire section) done (W.written out.old) (W.room out.old)
            (W.written out.new) (W.room out.new)) }
        ensures refused { IfErr result (λ e. RefusesTrailersWith self.old list.now encoder.old
            encoder.new instructions.old.items instructions.new.items (W.room out.old) e) }
        ensures kept { OnErr result (self.new ≡ self.old) }
        ensures unwritten { OnErr result ((W.written out.new ≡ W.written out.old)
            × (W.room out.new ≡ W.room out.old)) }
        ensures target { W.target out.new ≡ W.target out.old }
    {
        match self.tail(list) {
            Ok(message) => match put_encoded(alloc, self.id, list, encoder, instructions, out) {
                Ok(()) => {
                    self.message = message;
                    self.place = Place::Trailers;
                    Ok(())
                }
                Err(error) => Err(error),
            },
            Err(error) => Err(error),
        }
    }
}

/// Returns the proposals of the fields of a list, in their order.
fn proposals_of<'a>(alloc: Global, list: &'a FieldList) -> Result<Vec<Proposal<'a>>, AllocError>
    ensures { IfOk result (λ proposals. AreProposals list.now proposals.items) }
{
    let mut proposals = Vec::new(alloc);
    let mut fields = list.iter();
    while let Some(field) = fields.next() {
        proposals.push(Proposal {
            name: field.name,
            value: field.value,
            indexing: indexing_of(field.name, field.value),
        })?;
    }
    Ok(proposals)
}

/// Writes the HEADERS frame of a section.
fn put_headers<W: BytesWriter>(alloc: Global, section: &[u8], out: &mut W) -> Result<(), SendError>
    ensures written { WritesAll (section_wire section.now) result (W.written out.old)
        (W.room out.old) (W.written out.new) (W.room out.new) }
    ensures lacks { IfErr result (λ e. LacksFrame section.now (W.room out.old) e) }
    ensures framed { OnOk result (length section.now < 2 ^ 62) }
    ensures target { W.target out.new ≡ W.target out.old }
{
    if section.len() as u64 > VarInt::MAX.into_inner() {
        return Err(SendError::TooLarge);
    }
    let frame = Frame::new_headers(CowSlice::Borrowed(section));
    put_frame(alloc, &frame, out)
}

/// Encodes the fields of a list as a section of a stream, and writes its HEADERS frame. If the frame is
/// not written, the section is taken back.
fn put_encoded<W: BytesWriter>(
    alloc: Global,
    id: SessionId,
    list: &FieldList,
    encoder: &mut QpackEncoder,
    instructions: &mut Vec<u8>,
    out: &mut W,
) -> Result<(), SendError>
    ensures sent { OnOk result ((section : List ℕ) × (length section < 2 ^ 62)
        × IsEncoded id list.now encoder.old encoder.new instructions.old.items
        instructions.new.items section
        × WritesAll (section_wire section) done (W.written out.old) (W.room out.old)
        (W.written out.new) (W.room out.new)) }
    ensures lacks { IfErr result (λ e. LacksEncoded id list.now encoder.old encoder.new
        instructions.old.items instructions.new.items (W.room out.old) e) }
    ensures unwritten { OnErr result ((W.written out.new ≡ W.written out.old)
        × (W.room out.new ≡ W.room out.old)) }
    ensures target { W.target out.new ≡ W.target out.old }
{
    let Ok(proposals) = proposals_of(alloc, list) else {
        return Err(SendError::Memory);
    };
    let count = encoder.unacknowledged();
    let mut section = Vec::new(alloc);
    let encoded = encoder.encode(
        id.into_u64(),
        proposals.as_slice(),
        instructions,
        &mut section,
    );
    match encoded {
        Ok(()) => match put_headers(alloc, section.as_slice(), out) {
            Ok(()) => Ok(()),
            Err(error) => {
                encoder.take_back(count);
                Err(error)
            }
        },
        Err(_) => Err(SendError::Memory),
    }
}
