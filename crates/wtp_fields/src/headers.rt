//! Header maps, and the HEADERS frames that contain them (RFC 9114, section 7.2.2).
ghost use Rattle.std.specs.Prelude.{◌≡◌, ℕ, ◌≤◌, ◌^◌, ◌++◌, List, [], length, OnOk, OnErr, IfOk};
ghost use Rattle.std.specs.Prelude.{Err, Some, map};
ghost use Rattle.std.specs.Borrow.{Bor};
ghost use Rattle.std.specs.Option.{option_copied};
ghost use Rattle.std.specs.Iterator.{IsFinite, Drains, YieldsThen};
ghost use Rattle.wtp_wire.specs.Content.{payload_in, kind_in, HeadersOf};
ghost use Rattle.wtp_qpack.specs.Field.{IsMap, AreTexts, put, field_map, field_value, fields_of};
ghost use Rattle.wtp_qpack.specs.Field.{fields_of_texts};
ghost use Rattle.wtp_qpack.specs.FieldSection.{SectionNeedsMemory};
ghost use Rattle.wtp_fields.specs.Headers.{payload, headers_at, GivesUnlessRefused};
ghost use Rattle.wtp_fields.specs.Headers.{begins_with_colon, group_lines};

use std::alloc::{AllocError, Global};
use std::borrow::CowSlice;
use std::collections::BTreeMap;
use std::marker::Model;
use wtp_core::error::{ErrorCode, Refused};
use wtp_core::varint::VarInt;
use wtp_qpack::qpack::{Decoder, DecodingError};
use wtp_qpack::section;
use wtp_wire::frame::{Frame, FrameKind, FrameOwned, GenerateError};

/// A map of header fields: one value for each name, both UTF-8 texts.
#[derive(Debug, Drop)]
pub struct Headers {
    fields: BTreeMap<String, String>,
    // the allocator of the texts of later fields
    alloc: Global,
}

// Contracts treat a map as its fields, names and values as bytes, in the byte order of the names.
impl Model for Headers {
    ghost use Rattle.std.specs.Prelude.{List};
    ghost use Rattle.wtp_qpack.specs.Field.{Field, fields_of};

    ghost Value = { List Field };

    ghost view = { λ h. fields_of h.fields };
}

impl Headers {
    /// Creates the empty map. Nothing is allocated.
    pub fn new(alloc: Global) -> Self
        ensures { result ≡ [] }
    {
        Headers {
            fields: BTreeMap::new(alloc),
            alloc,
        }
    }

    /// Returns the allocator of the texts of later fields.
    pub(crate) fn allocator(&self) -> Global {
        self.alloc
    }

    /// Returns the map of the field section that is the frame's payload. The last value of a name
    /// wins.
    ///
    /// Every fault of the section is [`ErrorCode::Decompression`]. Allocation fails only at a field
    /// line after valid ones that is valid too, or that has a Huffman text with no fault before it.
    pub fn with_frame(alloc: Global, frame: &Frame<'_>) -> Result<Self, Refused>
        requires { kind_in frame.now ≡ FrameKind.Headers }
        ensures read { GivesUnlessRefused result (headers_at (payload_in frame.now)) }
        ensures memory { result ≡ Err Refused.Memory → SectionNeedsMemory (payload_in frame.now) }
    {
        match Decoder::decode(alloc, frame.payload()) {
            Ok(fields) => Ok(Headers { fields, alloc }),
            Err(DecodingError::Memory) => Err(Refused::Memory),
            Err(_) => Err(Refused::Code(ErrorCode::Decompression)),
        }
    }

    /// Returns a HEADERS frame of the map (RFC 9114, section 7.2.2), whose payload the map
    /// determines: pseudo-header fields, whose names start with a colon, come first (RFC 9114,
    /// section 4.3), and each group is in the byte order of the names.
    ///
    /// Returns [`GenerateError::Memory`] if allocation fails, and [`GenerateError::PayloadTooLong`]
    /// if the payload has 2^62 bytes or more. The map is unchanged.
    pub fn generate_frame(&self, alloc: Global) -> Result<FrameOwned, GenerateError>
        ensures frame { IfOk result (λ frame. frame ≡ HeadersOf (payload self.now)) }
        ensures too_long { result ≡ Err GenerateError.PayloadTooLong
            → 2 ^ 62 ≤ length (payload self.now) }
    {
        let Ok(payload) = encode_payload(alloc, &self.fields) else {
            return Err(GenerateError::Memory);
        };
        if payload.len() as u64 > VarInt::MAX.into_inner() {
            return Err(GenerateError::PayloadTooLong);
        }
        Ok(Frame::new_headers(CowSlice::Owned(payload)))
    }

    /// Returns the value of a name.
    pub fn get(&self, name: &str) -> Option<&str>
        ensures { option_copied result ≡ field_value name.now self.now }
    {
        match self.fields.get(name) {
            Some(value) => Some(value.as_str()),
            None => None,
        }
    }

    /// Sets the value of a name, in place of its previous value. On an error nothing changes.
    #[tactic(auto, using(wtp_qpack::proofs::SectionReading::put_entry))]
    pub fn insert(&mut self, name: &str, value: &str) -> Result<(), AllocError>
        ensures ok { OnOk result (self.new ≡ put self.old (name.now, value.now)) }
        ensures err { OnErr result (self.new ≡ self.old) }
    {
        let name = String::from_str(self.alloc, name)?;
        let value = String::from_str(self.alloc, value)?;
        self.fields.insert(name, value)?;
        Ok(())
    }

    /// Returns the map of the pairs of a name and a value. The last value of a name wins.
    ///
    /// Returns [`AllocError`] if allocation fails. The pairs are dropped in either case.
    pub fn from_iter<'a, I: Iterator<Item = (&'a str, &'a str)> + Drop>(
        alloc: Global,
        pairs: I,
    ) -> Result<Self, AllocError>
        requires can { I.can_next pairs }
        requires finite { IsFinite (I.remaining pairs) }
        ensures map { IfOk result (λ headers. (ps : List (Bor (List ℕ) × Bor (List ℕ)))
            × Drains I.next_gives pairs ps × (headers ≡ field_map (fields_of_texts ps))) }
        // Allocation fails only at a pair.
        ensures memory { OnErr result ((ps : List (Bor (List ℕ) × Bor (List ℕ)))
            × (pair : Bor (List ℕ) × Bor (List ℕ)) × (left : I)
            × YieldsThen I.next_gives pairs ps (Some pair) left) }
    {
        let mut headers = Headers::new(alloc);
        for (name, value) in pairs {
            headers.insert(name, value)?;
        }
        Ok(headers)
    }

    /// Returns the fields by their names.
    pub fn as_ref(&self) -> &BTreeMap<String, String>
        ensures fields { fields_of result.now ≡ self.now }
        ensures ordered { IsMap self.now }
        ensures texts { AreTexts self.now }
    {
        // The contract of `len` states that each name is in the map once, in order.
        let _len = self.fields.len();
        &self.fields
    }
}

impl Clone for Headers {
    ghost is_clone = { λ map copy. copy ≡ map };

    /// Returns a copy of the map, or [`AllocError`] if allocation fails.
    #[tactic(auto, using(crate::proofs::HeaderLemmas::held_clone))]
    fn clone(&self) -> Result<Headers, AllocError> {
        let fields = self.fields.clone()?;
        Ok(Headers {
            fields,
            alloc: self.alloc,
        })
    }
}

/// Returns whether a name is that of a pseudo-header field.
fn is_pseudo(name: &str) -> bool
    ensures { result ≡ begins_with_colon name.now }
{
    name.as_bytes().first() == Some(&b':')
}

/// Appends the lines of the pseudo-header fields, or of the others.
fn write_group(
    out: &mut Vec<u8>,
    fields: &BTreeMap<String, String>,
    pseudo: bool,
) -> Result<(), AllocError>
    ensures { OnOk result (out.new.items
        ≡ out.old.items ++ group_lines pseudo (fields_of fields.now)) }
{
    for (name, value) in fields {
        if is_pseudo(name.as_str()) == pseudo {
            section::write_line(out, name.as_str(), value.as_str())?;
        }
    }
    Ok(())
}

/// Returns the payload of a map.
#[tactic(auto, unfolding(crate::specs::Headers::payload))]
fn encode_payload(alloc: Global, fields: &BTreeMap<String, String>) -> Result<Vec<u8>, AllocError>
    ensures { IfOk result (λ v. v.items ≡ payload (fields_of fields.now)) }
{
    let mut out = section::empty_prefix(alloc)?;
    write_group(&mut out, fields, true)?;
    write_group(&mut out, fields, false)?;
    Ok(out)
}
