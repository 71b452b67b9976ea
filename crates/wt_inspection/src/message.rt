//! What is wrong with the field sections of a message (RFC 9114, sections 4.2 to 4.4).

ghost use Rattle.std.specs.Prelude.{◌≡◌, ◌≢◌, IfOk, Ok};
ghost use Rattle.std.specs.Str.{bytes_eq};
ghost use Rattle.wt_inspection.specs.Recording.{TakesSection};
ghost use Rattle.wt_inspection.specs.SessionSections.{has_field};
ghost use Rattle.wt_inspection.specs.Walks.{Leads};

pub(crate) mod judge;
mod lines;
mod pseudo;
mod sessions;

use crate::capsules::CapsuleWalk;
use crate::message::judge::Judge;
use crate::message::lines::warning_of_line;
use crate::message::pseudo::{Pseudo, warning_of_pseudo};
pub use crate::message::sessions::request_opens;
use crate::message::sessions::{accepts, connects, is_interim, opens_session};
use crate::past::Past;
use crate::reading::{Next, Phase, Reading, add_warning};
use std::alloc::{AllocError, Global};
use wt_inspection_model::item::{FieldSection, Line, Rule, Warning};
use wtp_wire::rules::StreamRole;

/// What a field section belongs to.
#[derive(Clone, Copy, PartialEq, Eq)]
pub(crate) enum Purpose {
    /// The header section of a request.
    Request,
    /// The header section of a response.
    Response,
    /// The trailer section of either.
    Trailers,
    /// It is not known.
    Any,
}

/// Takes the field section of the next HEADERS frame on a stream of this role: warns of what is
/// wrong with it, and finds out whether DATA frames contain capsules.
pub(crate) fn take_section(
    reading: &mut Reading,
    role: StreamRole,
    at: usize,
    section: &FieldSection,
    payload: &[u8],
) -> Result<(), AllocError>
    ensures { IfOk result (λ _. Leads reading.old.phase reading.new.phase
        (TakesSection role section.now) (Ok Next.Head)) }
{
    let purpose = purpose_of(reading, role);
    let before = reading.warnings.len();
    warn_by(&mut reading.warnings, at, section, purpose)?;
    let is_judged = reading.warnings.len() > before;
    judge_section(reading, role, at, payload, is_judged)?;
    let hint = kind_hint(section, purpose);
    reading.warn(at, hint)?;
    if purpose == Purpose::Trailers {
        reading.past.saw_trailers = true;
        return Ok(());
    }
    note_section(&mut reading.past, role, section);
    reading.phase = phase_after(reading.alloc, role, section);
    Ok(())
}

/// Returns a hint that a section is of another kind of message.
fn kind_hint(section: &FieldSection, purpose: Purpose) -> Option<Rule> {
    match purpose {
        Purpose::Request if has_field(section, b":status") => Some(Rule::LikeResponse),
        Purpose::Response if has_field(section, b":method") => Some(Rule::LikeRequest),
        _ => None,
    }
}

/// Warns of what makes a section malformed, unless that `is_judged` already.
fn judge_section(
    reading: &mut Reading,
    role: StreamRole,
    at: usize,
    payload: &[u8],
    is_judged: bool,
) -> Result<(), AllocError>
    ensures { IfOk result (λ _. reading.new.phase ≡ reading.old.phase) }
{
    let mut judge = reading.past.judge.unwrap_or(Judge::new(role));
    if is_judged {
        judge.stop();
    }
    let broken = judge.section(reading.alloc, payload)?;
    reading.past.judge = Some(judge);
    reading.warn(at, broken)
}

/// Notes what a header section says of the frames after it.
fn note_section(past: &mut Past, role: StreamRole, section: &FieldSection) {
    if is_interim(role, section) {
        return;
    }
    let is_session = opens_session(role, section);
    past.is_tunnel = is_session || connects(section);
    past.may_have_capsules = !is_session && role == StreamRole::BiLocal && accepts(section);
}

/// Warns of what is wrong with the section of a promised request.
pub(crate) fn warn_of_promise(
    reading: &mut Reading,
    at: usize,
    section: &FieldSection,
) -> Result<(), AllocError>
    ensures { IfOk result (λ _. reading.new.phase ≡ reading.old.phase) }
{
    warn_by(&mut reading.warnings, at, section, Purpose::Request)
}

/// Returns how far a message is after its header section, or after the section of an interim
/// response.
fn phase_after(alloc: Global, role: StreamRole, section: &FieldSection) -> Phase
    ensures { Leads Phase.Opening result (TakesSection role section.now) (Ok Next.Head) }
{
    if is_interim(role, section) {
        Phase::Opening
    } else if opens_session(role, section) {
        Phase::Session(CapsuleWalk::new(alloc))
    } else {
        Phase::Plain
    }
}

/// Warns of what is wrong with a section of any message.
pub(crate) fn warn_of_section(
    reading: &mut Reading,
    at: usize,
    section: &FieldSection,
) -> Result<(), AllocError>
    ensures { IfOk result (λ _. reading.new.phase ≡ reading.old.phase) }
{
    warn_by(&mut reading.warnings, at, section, Purpose::Any)
}

/// Returns what the next field section on a stream of this role belongs to.
fn purpose_of(reading: &Reading, role: StreamRole) -> Purpose
    ensures start { result ≢ Purpose.Trailers → reading.now.phase ≡ Phase.Opening }
    ensures trailers { result ≡ Purpose.Trailers → reading.now.phase ≢ Phase.Opening }
{
    match reading.phase {
        Phase::Plain | Phase::Session(_) => Purpose::Trailers,
        Phase::Opening => purpose_at_start(role),
    }
}

/// Returns what the first field section on a stream of this role belongs to.
fn purpose_at_start(role: StreamRole) -> Purpose
    ensures { result ≢ Purpose.Trailers }
{
    match role {
        StreamRole::BiLocal | StreamRole::Session => Purpose::Response,
        StreamRole::BiRemote | StreamRole::UniRemote => Purpose::Request,
    }
}

/// Warns of what is wrong with a section.
fn warn_by(
    warnings: &mut Vec<Warning>,
    at: usize,
    section: &FieldSection,
    purpose: Purpose,
) -> Result<(), AllocError> {
    let mut seen = Pseudo::new();
    for (k, line) in section.lines.iter().enumerate() {
        if line.unknown.is_some() {
            continue;
        }
        let why = warning_of_pseudo(&mut seen, line, purpose).or(warning_of_line(line));
        add_warning(warnings, at, Some(k), why)?;
    }
    if section.fault.is_some() {
        return Ok(());
    }
    add_warning(warnings, at, None, seen.missing(purpose))
}

/// Returns whether a section has a line of this name.
fn has_field(section: &FieldSection, name: &[u8]) -> bool
    ensures { result ≡ has_field name.now section.now.lines.items }
{
    section.lines.iter().any(|line| is_named(line, name))
}

/// Returns whether a line has this name.
fn is_named(line: &Line, name: &[u8]) -> bool
    ensures { result ≡ bytes_eq line.now.name.items name.now }
{
    line.name.as_slice() == name
}
