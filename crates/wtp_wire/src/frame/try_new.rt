//! Constructors of frames that check the length of the payload.
ghost use Rattle.std.specs.Prelude.{◌≡◌, ◌<◌, ◌^◌, ◌↔◌, length, IsTrue, IsOk, IfOk, OnErr, Err};
ghost use Rattle.std.specs.Cow.{cow_slice_items};
ghost use Rattle.wtp_wire.specs.Content.{DataOf, HeadersOf, SettingsOf};

use crate::frame::{Frame, GenerateError};
use std::borrow::CowSlice;
use wtp_core::varint::VarInt;

/// Returns whether the payload has fewer than 2^62 bytes.
fn fits(payload: &CowSlice<'_, u8>) -> bool
    ensures { IsTrue result ↔ (length (cow_slice_items payload.now) < 2 ^ 62) }
{
    let len = match payload {
        CowSlice::Borrowed(bytes) => bytes.len(),
        CowSlice::Owned(bytes) => bytes.len(),
    };
    len as u64 <= VarInt::MAX.into_inner()
}

impl<'a> Frame<'a> {
    /// Creates a HEADERS frame (RFC 9114, section 7.2.2) from a payload of any length.
    ///
    /// Returns `PayloadTooLong` exactly if the payload has 2^62 bytes or more.
    pub fn try_new_headers(payload: CowSlice<'a, u8>) -> Result<Self, GenerateError>
        ensures fits { IsOk result ↔ (length (cow_slice_items payload.entry) < 2 ^ 62) }
        ensures ok { IfOk result (λ f. f ≡ HeadersOf (cow_slice_items payload.entry)) }
        ensures err { OnErr result (result ≡ Err GenerateError.PayloadTooLong) }
    {
        if !fits(&payload) {
            return Err(GenerateError::PayloadTooLong);
        }
        Ok(Frame::new_headers(payload))
    }

    /// Creates a SETTINGS frame (RFC 9114, section 7.2.4) from a payload of any length.
    ///
    /// Returns `PayloadTooLong` exactly if the payload has 2^62 bytes or more.
    pub fn try_new_settings(payload: CowSlice<'a, u8>) -> Result<Self, GenerateError>
        ensures fits { IsOk result ↔ (length (cow_slice_items payload.entry) < 2 ^ 62) }
        ensures ok { IfOk result (λ f. f ≡ SettingsOf (cow_slice_items payload.entry)) }
        ensures err { OnErr result (result ≡ Err GenerateError.PayloadTooLong) }
    {
        if !fits(&payload) {
            return Err(GenerateError::PayloadTooLong);
        }
        Ok(Frame::new_settings(payload))
    }

    /// Creates a DATA frame (RFC 9114, section 7.2.1) from a payload of any length.
    ///
    /// Returns `PayloadTooLong` exactly if the payload has 2^62 bytes or more.
    pub fn try_new_data(payload: CowSlice<'a, u8>) -> Result<Self, GenerateError>
        ensures fits { IsOk result ↔ (length (cow_slice_items payload.entry) < 2 ^ 62) }
        ensures ok { IfOk result (λ f. f ≡ DataOf (cow_slice_items payload.entry)) }
        ensures err { OnErr result (result ≡ Err GenerateError.PayloadTooLong) }
    {
        if !fits(&payload) {
            return Err(GenerateError::PayloadTooLong);
        }
        Ok(Frame::new_data(payload))
    }
}
