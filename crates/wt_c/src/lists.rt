//! Decodes a field section into a list of fields (RFC 9204, section 4.5).
ghost use Rattle.std.specs.Prelude.{◌≡◌, ◌≢◌, ◌⊎◌, MatchResult};
ghost use Rattle.wt_c.specs.Fields.{AreLinesOf, HasSectionFault, HasStoredLine};

use crate::status::{ERROR, MEMORY};
use std::alloc::Global;
use wtp_core::error::ErrorCode;
use wtp_fields::fields::{FieldList, FieldSectionError};

/// Why a field section could not be decoded.
#[derive(Drop)]
pub(crate) enum Unread {
    /// The section has an error.
    Fault,
    /// Allocation failed.
    Memory,
}

impl Unread {
    /// Returns the status code for C. For an error in the section, sets `code` to its error code.
    pub(crate) fn answer(self, code: &mut u64) -> i32
        ensures fault { self ≡ Unread.Fault → (result ≡ ERROR) × (code.new ≡ 0x200) }
        ensures memory { self ≡ Unread.Memory → (result ≡ MEMORY) × (code.new ≡ code.old) }
    {
        match self {
            Unread::Fault => {
                *code = ErrorCode::Decompression.to_code().into_inner();
                ERROR
            }
            Unread::Memory => MEMORY,
        }
    }
}

/// Decodes a field section into its fields, in order.
///
/// Returns [`Unread::Fault`] if the section has an error, and [`Unread::Memory`] if allocation
/// failed or the fields have a size of 2^64 or more, which no memory can hold.
#[tactic(auto, using(crate::proofs::ListLemmas::decoded))]
pub(crate) fn read_fields(alloc: Global, section: &[u8]) -> Result<FieldList, Unread>
    ensures fields { MatchResult result (λ list. AreLinesOf section.now list) (λ e.
        (e ≡ Unread.Fault → HasSectionFault section.now)
        × (e ≡ Unread.Memory → HasStoredLine section.now)) }
{
    match FieldList::decode(alloc, section, u64::MAX) {
        Ok(list) => Ok(list),
        Err(FieldSectionError::Decoding(_)) => Err(Unread::Fault),
        Err(FieldSectionError::TooLarge | FieldSectionError::Memory) => Err(Unread::Memory),
    }
}
