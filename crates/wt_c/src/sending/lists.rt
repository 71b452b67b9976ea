//! The fields of a message to send, as a list. The rules of messages are not checked here.
ghost use Rattle.std.specs.Prelude.{◌≡◌, length, MatchBool, MatchResult};
ghost use Rattle.wt_c.specs.Fields.{AreWithin};
ghost use Rattle.wt_c.specs.Texts.{lines_in};

use crate::fields::WtField;
use crate::sections::encode_fields;
use crate::texts::{Rejection, are_within};
use std::alloc::Global;
use wtp_fields::fields::FieldList;

// Returns the fields as a list, in their order and with repeated names.
#[tactic(auto, using(crate::proofs::SendingLemmas::decoded))]
pub(crate) fn list_of(
    alloc: Global,
    fields: &[WtField],
    texts: &[u8],
) -> Result<FieldList, Rejection>
    ensures { MatchResult result
        (λ list. AreWithin (length texts.now) fields.now
        × (list ≡ lines_in texts.now fields.now))
        (λ e. (e ≡ Rejection.Invalid → ¬ (AreWithin (length texts.now) fields.now))
        × (e ≡ Rejection.Memory → AreWithin (length texts.now) fields.now)) }
{
    if !are_within(fields, texts.len()) {
        return Err(Rejection::Invalid);
    }
    let Ok(section) = encode_fields(alloc, fields, texts) else {
        return Err(Rejection::Memory);
    };
    match FieldList::decode(alloc, section.as_slice(), u64::MAX) {
        Ok(list) => Ok(list),
        Err(_) => Err(Rejection::Memory),
    }
}
