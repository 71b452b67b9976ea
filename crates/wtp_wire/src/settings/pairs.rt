//! The settings of a payload as pairs, including unknown ones.

ghost use Rattle.std.specs.Prelude.{◌≡◌, length, Some, None, MatchOption};
ghost use Rattle.std.specs.Iterator.{YieldsFirst, at_most};
ghost use Rattle.wtp_wire.specs.SettingPairs.{setting_items};
ghost use Rattle.wtp_wire.specs.Settings.{pair_at};

use crate::settings::SettingId;
use std::alloc::AllocError;
use std::iter::FusedIterator;
use std::marker::Model;
use wtp_core::bytes::BytesReader;
use wtp_core::error::ErrorCode;
use wtp_core::varint::VarInt;

/// A setting in a payload: its identifier, which may be unknown, and its value.
#[derive(Clone, Copy, Debug, PartialEq, Eq)]
pub struct SettingPair {
    /// The identifier.
    pub id: VarInt,
    /// The value.
    pub value: VarInt,
}

/// An iterator over the settings in the payload of a SETTINGS frame (RFC 9114, sections 7.1, 7.2.4
/// and 7.2.4.1), in the order of the payload. It returns known, reserved and unknown identifiers,
/// and does not allocate.
///
/// Each item is a pair or the first error, after which the iterator ends:
///
/// - `Err(Frame)`: an identifier or a value is truncated.
/// - `Err(Settings)`: the identifier is reserved because HTTP/2 used it: 0x00, or 0x02 to 0x05.
///
/// A repeated identifier is not an error here: all of its pairs are returned.
/// `Settings::with_frame` rejects it if the identifier is known or reserved for exercise, and
/// otherwise returns the same errors.
#[derive(Debug, Drop)]
pub struct SettingPairs<'a> {
    rest: &'a [u8],
}

impl<'a> Model for SettingPairs<'a> {
    ghost use Rattle.std.specs.Prelude.{List, Result};
    ghost use Rattle.wtp_core.specs.declared.error.ErrorCode.{ErrorCode};
    ghost use Rattle.wtp_wire.specs.declared.settings.pairs.SettingPair.{SettingPair};
    ghost use Rattle.wtp_wire.specs.SettingPairs.{setting_items};

    ghost Value = { List (Result SettingPair ErrorCode) };

    ghost view = { λ s. setting_items s.rest.now };
}

impl<'a> SettingPairs<'a> {
    /// Creates an iterator over the settings in the payload.
    pub fn new(payload: &'a [u8]) -> Self
        ensures { result ≡ setting_items payload.now }
    {
        SettingPairs { rest: payload }
    }
}

/// Takes an identifier and a value from the start of the bytes. Returns `None` if one of them is
/// truncated.
#[tactic(auto, using(crate::proofs::PairLemmas::pair_steps))]
fn take_pair(bytes: &mut &[u8]) -> Option<SettingPair>
    ensures { MatchOption result (pair_at bytes.old.now ≡ None)
        (λ p. pair_at bytes.old.now ≡ Some ((p.id, p.value), bytes.new.now)) }
{
    let Some(id) = bytes.get_varint() else {
        return None;
    };
    let Some(value) = bytes.get_varint() else {
        return None;
    };
    Some(SettingPair { id, value })
}

/// Takes a pair from the start of the bytes. If there is an error instead, returns it and takes all
/// bytes.
#[tactic(auto, using(crate::proofs::SettingPairsLemmas::item_steps))]
fn take_item(bytes: &mut &[u8]) -> Option<Result<SettingPair, ErrorCode>>
    ensures { YieldsFirst (λ b. setting_items b) bytes.old.now result bytes.new.now }
{
    if bytes.is_empty() {
        return None;
    }
    let Some(pair) = take_pair(bytes) else {
        *bytes = &[];
        return Some(Err(ErrorCode::Frame));
    };
    if SettingId::is_reserved(pair.id) {
        *bytes = &[];
        return Some(Err(ErrorCode::Settings));
    }
    Some(Ok(pair))
}

impl Iterator for SettingPairs<'_> {
    type Item = Result<SettingPair, ErrorCode>;

    ghost next_gives = { YieldsFirst (λ s. s) };

    ghost remaining = { λ s. at_most (length s) };

    fn next(&mut self) -> Option<Result<SettingPair, ErrorCode>> {
        take_item(&mut self.rest)
    }
}

impl FusedIterator for SettingPairs<'_> {}

impl Clone for SettingPairs<'_> {
    ghost use Rattle.std.specs.Prelude.{⊤};

    ghost is_clone = { λ s r. r ≡ s };

    ghost is_infallible = { λ _. ⊤ };

    fn clone(&self) -> Result<Self, AllocError> {
        Ok(SettingPairs { rest: self.rest })
    }
}
