//! What each end of a connection would have said of the other.

ghost use Rattle.std.specs.List.{list_any};
ghost use Rattle.std.specs.Prelude.{◌≡◌, ◌+◌, ◌⊎◌, ℕ, List, true, if◌then◌else◌, IfErr, IfOk, length};
ghost use Rattle.wt_inspect.specs.Drawing.{Draws, has_colors};
ghost use Rattle.wt_inspect.specs.Sheets.{AreLinesOf, DrawsLines, is_lines};
ghost use Rattle.wt_inspect.specs.Shown.{StopsShowing};
ghost use Rattle.wt_inspect.specs.VerdictsShown.{breaks_rule, count_of, has_fault_in, verdict_lines};
ghost use Rattle.wt_inspect.specs.declared.arguments.Output.TheVariants.{Json as JsonOutput, Text as TextOutput};
ghost use Rattle.wt_inspection_views.specs.Escaped.{line_count};
ghost use Rattle.wt_inspect_verdicts.specs.Findings.{EndOnce};
ghost use Rattle.wt_inspection_views.specs.Objects.{AddsLines};

use super::heads::sender_name;
use super::tables::other_end;
use crate::arguments::{Arguments, Output};
use crate::drawing::bytes_of;
use crate::failure::Failure;
use crate::files::shown_bytes;
use crate::showing::{flush, write};
use std::alloc::{AllocError, Global};
use std::io::Write;
use wt_inspect_connection::list::Sender;
use wt_inspect_connection::piece::Piece;
use wt_inspect_verdicts::judge::judge;
use wt_inspect_verdicts::verdict::{Finding, Place, Verdict};
use wt_inspection_views::json_lines::{Lines, VerdictLine, add_verdict};
use wt_inspection_views::painting::Style;
use wt_inspection_views::plain::PlainText;
use wtp_core::error::Code;

/// What each end of a connection would have said of the other.
#[derive(Drop)]
pub(super) struct Verdicts {
    /// What the server would have said.
    pub(super) server: Vec<Verdict>,
    /// What the client would have said.
    pub(super) client: Vec<Verdict>,
}

/// Returns what each end of a connection would have said of what the other sent.
///
/// Returns [`AllocError`] if allocation fails.
pub(super) fn judge_both(
    alloc: Global,
    arguments: &Arguments<'_>,
    pieces: &[Piece<'_>],
) -> Result<Verdicts, AllocError>
    ensures { IfOk result (λ verdicts. EndOnce verdicts.server.items
        × EndOnce verdicts.client.items) }
{
    let server = judge(alloc, pieces, Sender::Server, arguments.is_open)?;
    let client = judge(alloc, pieces, Sender::Client, arguments.is_open)?;
    Ok(Verdicts { server, client })
}

/// Writes what each end of a connection would have said of what the other sent. Returns the exit
/// status: 0, or 2 if one of them broke a rule.
pub(super) fn show_verdicts<W: Write>(
    alloc: Global,
    arguments: &Arguments<'_>,
    pieces: &[Piece<'_>],
    output: &mut W,
) -> Result<u8, Failure>
    requires { is_lines arguments.now.output ≡ true }
    ensures shows { IfOk result (λ status. (text : List ℕ) × (count : ℕ)
        × Draws (has_colors arguments.now) (W.contents output.old) (W.contents output.new) text
        × AreLinesOf arguments.now.output count text) }
    ensures statuses { IfOk result (λ status. (status ≡ 0) ⊎ (status ≡ 2)) }
    ensures fails { IfErr result StopsShowing }
{
    let verdicts = judge_both(alloc, arguments, pieces)?;
    let lines = lines_of(alloc, arguments, &verdicts)?;
    write(output, lines.as_slice())?;
    flush(output)?;
    Ok(status_of(&verdicts))
}

/// Returns the exit status: 2 if a rule was broken, and otherwise 0.
fn status_of(verdicts: &Verdicts) -> u8
    ensures { result ≡ (if has_fault_in verdicts.now then 2 else 0) }
{
    if has_fault_in(verdicts) { 2 } else { 0 }
}

/// Returns whether one of the ends broke a rule.
pub(super) fn has_fault_in(verdicts: &Verdicts) -> bool
    ensures { result ≡ has_fault_in verdicts.now }
{
    has_fault(verdicts.server.as_slice()) || has_fault(verdicts.client.as_slice())
}

/// Returns whether a rule was broken.
fn has_fault(verdicts: &[Verdict]) -> bool
    ensures { result ≡ list_any breaks_rule verdicts.now }
{
    verdicts.iter().any(|verdict| breaks_rule(verdict))
}

/// Returns whether a verdict is one of a rule that was broken.
pub(super) fn breaks_rule(verdict: &Verdict) -> bool
    ensures { result ≡ breaks_rule verdict.now }
{
    verdict.finding.is_fault()
}

/// Returns the lines of verdicts.
fn lines_of(
    alloc: Global,
    arguments: &Arguments<'_>,
    verdicts: &Verdicts,
) -> Result<Vec<u8>, AllocError>
    requires { is_lines arguments.now.output ≡ true }
    ensures { IfOk result (λ lines. DrawsLines arguments.now.output arguments.now.has_colors
        (verdict_lines arguments.now.output (count_of verdicts.now)) lines.items) }
{
    match arguments.output {
        Output::Json => json_of(alloc, verdicts),
        Output::Text | Output::Html => text_of(alloc, arguments.has_colors, verdicts),
    }
}

/// Returns the lines of text.
fn text_of(alloc: Global, colors: bool, verdicts: &Verdicts) -> Result<Vec<u8>, AllocError>
    ensures { IfOk result (λ lines. DrawsLines TextOutput «colors»
        (verdict_lines TextOutput (count_of verdicts.now)) lines.items) }
{
    let server = verdicts.server.as_slice();
    let client = verdicts.client.as_slice();
    let mut text = PlainText::new(alloc);
    add_heading(&mut text, server.is_empty() && client.is_empty())?;
    add_text(alloc, &mut text, Sender::Server, server)?;
    add_text(alloc, &mut text, Sender::Client, client)?;
    bytes_of(text, colors)
}

/// Appends the heading of verdicts, and that there are none.
fn add_heading(text: &mut PlainText, is_empty: bool) -> Result<(), AllocError>
    ensures { IfOk result (λ _. line_count text.new
        ≡ line_count text.old + (if «is_empty» then 2 else 1)) }
{
    text.add_styled(Style::Heading, "== verdicts")?;
    if is_empty {
        text.add_line("no error")?;
    }
    Ok(())
}

/// Appends the lines of text of what an end would have said.
fn add_text(
    alloc: Global,
    text: &mut PlainText,
    by: Sender,
    verdicts: &[Verdict],
) -> Result<(), AllocError>
    ensures { IfOk result (λ _. line_count text.new
        ≡ line_count text.old + length verdicts.now) }
{
    for verdict in verdicts {
        let words = words_of(alloc, by, verdict)?;
        text.add_styled(style_of(verdict), words.as_str())?;
    }
    Ok(())
}

/// Returns the style of a verdict.
fn style_of(verdict: &Verdict) -> Style {
    if verdict.finding.is_fault() {
        Style::Fault
    } else {
        Style::Plain
    }
}

/// Returns the words of what an end would have said, or that the other end closed a session.
pub(super) fn words_of(alloc: Global, by: Sender, verdict: &Verdict) -> Result<String, AllocError> {
    let mut words = match &verdict.finding {
        Finding::Closed(code, _) => closed_words(alloc, other_end(by), verdict.place, *code)?,
        finding => finding_words(alloc, by, verdict.place, finding)?,
    };
    if let Some(reason) = verdict.finding.reason() {
        let reason = shown_bytes(alloc, reason)?;
        write!(words, ", \"{reason}\"")?;
    }
    Ok(words)
}

/// Returns that an end closed a session, and with which code.
fn closed_words(
    alloc: Global,
    closer: Sender,
    place: Place,
    code: u32,
) -> Result<String, AllocError> {
    let closer = sender_name(closer);
    let (place, number) = place_of(place);
    format!(in alloc; "the {closer} closed the session: {place} {number}: code {code}")
}

/// Returns what an end would do, where, and why.
fn finding_words(
    alloc: Global,
    by: Sender,
    place: Place,
    finding: &Finding,
) -> Result<String, AllocError> {
    let by = sender_name(by);
    let action = finding.action();
    let (place, number) = place_of(place);
    let why = finding.why(alloc)?;
    let code = code_words(alloc, finding.code())?;
    format!(in alloc; "the {by} would {action}: {code}{place} {number}: {why}")
}

/// Returns the name of an error code, if there is one, and a comma.
fn code_words(alloc: Global, code: Option<Code>) -> Result<String, AllocError> {
    match code {
        Some(code) => format!(in alloc; "{code}, "),
        None => Ok(String::new(alloc)),
    }
}

/// Returns what the number of a place counts, and the number: the ID of a stream, or the place of the
/// line of a datagram in the list, from 1.
fn place_of(place: Place) -> (&'static str, u64) {
    match place {
        Place::Stream(id) => ("stream", id),
        Place::Datagram(index) => ("datagram", (index as u64).saturating_add(1)),
    }
}

/// Returns the lines of JSON.
fn json_of(alloc: Global, verdicts: &Verdicts) -> Result<Vec<u8>, AllocError>
    ensures { IfOk result (λ lines. AreLinesOf JsonOutput
        (verdict_lines JsonOutput (count_of verdicts.now)) lines.items) }
{
    let mut lines = Lines::new(alloc);
    add_json(
        alloc,
        &mut lines,
        Sender::Server,
        verdicts.server.as_slice(),
    )?;
    add_json(
        alloc,
        &mut lines,
        Sender::Client,
        verdicts.client.as_slice(),
    )?;
    lines.into_bytes()
}

/// Appends the lines of JSON of what an end would have said.
fn add_json(
    alloc: Global,
    lines: &mut Lines,
    by: Sender,
    verdicts: &[Verdict],
) -> Result<(), AllocError>
    ensures { IfOk result (λ _. AddsLines (length verdicts.now) lines.old lines.new) }
{
    for verdict in verdicts {
        add_json_line(alloc, lines, by, verdict)?;
    }
    Ok(())
}

/// Appends the line of JSON of a verdict.
fn add_json_line(
    alloc: Global,
    lines: &mut Lines,
    by: Sender,
    verdict: &Verdict,
) -> Result<(), AllocError>
    ensures { IfOk result (λ _. AddsLines 1 lines.old lines.new) }
{
    let why = verdict.finding.why(alloc)?;
    let (place, number) = place_of(verdict.place);
    let line = VerdictLine {
        name: verdict.finding.name(),
        by: sender_name(by),
        place,
        number,
        code: verdict.finding.code(),
        why: why.as_str(),
        reason: verdict.finding.reason(),
    };
    add_verdict(lines, &line);
    Ok(())
}
