//! The lines of what an end of a connection would have said of the other.
ghost use Rattle.wt_inspection_views.specs.Objects.{AddsLines, AddsMembers};

use super::add_code;
use super::object::{Lines, Object};
use wtp_core::error::Code;

/// What an end of a connection would have said.
#[derive(Clone, Copy)]
pub struct VerdictLine<'a> {
    /// What it found.
    pub name: &'a str,
    /// The end.
    pub by: &'a str,
    /// What the number of the place counts.
    pub place: &'a str,
    /// Where it was found.
    pub number: u64,
    /// The error code that it would have sent.
    pub code: Option<Code>,
    /// The reason.
    pub why: &'a str,
    /// The reason that the other end gave.
    pub reason: Option<&'a [u8]>,
}

/// Appends the line of what an end would have said: `verdict` is what it found, and the other members
/// are those of `verdict`.
pub fn add_verdict(lines: &mut Lines, verdict: &VerdictLine<'_>)
    ensures { AddsLines 1 lines.old lines.new }
{
    let mut object = lines.begin();
    add_members(&mut object, verdict);
    lines.add(object)
}

/// Appends the members.
fn add_members(object: &mut Object, verdict: &VerdictLine<'_>)
    ensures { AddsMembers object.old object.new }
{
    object.add_text("verdict", verdict.name);
    object.add_text("by", verdict.by);
    object.add_number(verdict.place, verdict.number);
    add_error(object, verdict.code);
    object.add_text("why", verdict.why);
    add_reason(object, verdict.reason)
}

/// Appends the number and the name of an error code, if there is one.
fn add_error(object: &mut Object, code: Option<Code>)
    ensures { AddsMembers object.old object.new }
{
    match code {
        Some(code) => add_code(object, code),
        None => {}
    }
}

/// Appends the reason that the other end gave, if there is one.
fn add_reason(object: &mut Object, reason: Option<&[u8]>)
    ensures { AddsMembers object.old object.new }
{
    match reason {
        Some(reason) => {
            object.add_name("reason");
            object.add_value(reason)
        }
        None => {}
    }
}
