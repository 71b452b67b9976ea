//! The values of the capsules of flow control (draft-ietf-webtrans-http3, later drafts).
ghost use Rattle.std.specs.Prelude.{◌≡◌};
ghost use Rattle.wtp_core.specs.Varint.{number_at};
ghost use Rattle.wtp_wire.specs.Settings.{pair_at};
ghost use Rattle.wt_inspection.specs.FlowLimits.{has_limit, limit_of, meaning_of};
ghost use Rattle.wt_inspection.specs.FlowLimits.{only_limit, only_stream_limit};

use crate::reading::add_warning;
use std::alloc::AllocError;
use vesgrauf_registry::capsules::{Meaning, find_capsule};
use wt_inspection_model::item::{CapsuleItem, FlowLimit, Rule, Warning};
use wtp_core::varint::{VarInt, first_varint};
use wtp_wire::head::first_pair;

/// Returns what a capsule of this type says to its session, if it is registered.
fn meaning_of(number: VarInt) -> Option<Meaning>
    ensures { result ≡ meaning_of number }
{
    match find_capsule(number.into_inner()) {
        Some(row) => Some(row.columns.meaning),
        None => None,
    }
}

/// Returns whether the value of a capsule of this type has a limit.
pub(crate) fn has_limit(number: VarInt) -> bool
    ensures { result ≡ has_limit number }
{
    match meaning_of(number) {
        Some(Meaning::Limit | Meaning::StreamLimit) => true,
        _ => false,
    }
}

/// Returns the limit in the value of a capsule of this type, if it has one.
#[tactic(auto, unfolding(crate::specs::FlowLimits::limit_of))]
pub(crate) fn limit_of(number: VarInt, value: &[u8]) -> Option<FlowLimit>
    ensures { result ≡ limit_of number value.now }
{
    match meaning_of(number) {
        Some(Meaning::Limit) => only_limit(value),
        Some(Meaning::StreamLimit) => only_stream_limit(value),
        _ => None,
    }
}

/// Returns the limit that these bytes are, if they are one integer and nothing else.
#[tactic(auto, using(crate::proofs::FlowLemmas::limit_is, crate::proofs::FlowLemmas::limit_none, crate::proofs::FlowLemmas::limit_more))]
fn only_limit(value: &[u8]) -> Option<FlowLimit>
    ensures { result ≡ only_limit (number_at value.now) }
{
    let Some((limit, size)) = first_varint(value) else {
        return None;
    };
    match &value[size..] {
        [] => Some(FlowLimit::Session(limit.into_inner())),
        [_, ..] => None,
    }
}

/// Returns the limit of a stream that these bytes are, if they are two integers and nothing else.
#[tactic(auto, using(crate::proofs::FlowLemmas::stream_is, crate::proofs::FlowLemmas::stream_none, crate::proofs::FlowLemmas::stream_more))]
fn only_stream_limit(value: &[u8]) -> Option<FlowLimit>
    ensures { result ≡ only_stream_limit (pair_at value.now) }
{
    let Some(pair) = first_pair(value) else {
        return None;
    };
    match &value[pair.size..] {
        [] => Some(FlowLimit::Stream(pair.first.into_inner(), pair.second.into_inner())),
        [_, ..] => None,
    }
}

/// Returns the rule that a complete capsule breaks: the value of one of flow control is not its
/// integers, or one that drains a session has a value.
pub(crate) fn breach_of(capsule: &CapsuleItem) -> Option<Rule> {
    let Some(row) = find_capsule(capsule.number) else {
        return None;
    };
    let is_bad = match row.columns.meaning {
        Meaning::Limit | Meaning::StreamLimit => capsule.limit.is_none(),
        Meaning::Drain => capsule.announced > row.columns.longest,
        _ => false,
    };
    if is_bad {
        Some(Rule::BadCapsuleValue)
    } else {
        None
    }
}

/// Adds a warning of the item at this place for each of its capsules that breaks a rule.
pub(crate) fn warn_of_values(
    warnings: &mut Vec<Warning>,
    at: usize,
    capsules: &[CapsuleItem],
) -> Result<(), AllocError> {
    for capsule in capsules {
        add_warning(warnings, at, None, breach_of(capsule))?;
    }
    Ok(())
}
