//! The lines of how the sessions of a connection went.

ghost use Rattle.std.specs.Prelude.{◌≡◌, ◌+◌, ◌==◌, ℕ, List, true, if◌then◌else◌, IfErr, IfOk, length};
ghost use Rattle.std.specs.Prelude.{map};
ghost use Rattle.wt_inspect.specs.Drawing.{Draws, has_colors};
ghost use Rattle.wt_inspect.specs.PageShown.{session_entries};
ghost use Rattle.wt_inspect.specs.SessionsShown.{ShowsSessions, session_lines};
ghost use Rattle.wt_inspect.specs.Sheets.{AreLinesOf, DrawsLines, is_lines};
ghost use Rattle.wt_inspect.specs.Shown.{StopsShowing};
ghost use Rattle.wt_inspect.specs.declared.arguments.Output.TheVariants.{Json as JsonOutput, Text as TextOutput};
ghost use Rattle.wt_inspection_views.specs.Escaped.{line_count};
ghost use Rattle.wt_inspection_views.specs.Html.{AddsEntries};
ghost use Rattle.wt_inspection_views.specs.Objects.{AddsLines};

use super::Connection;
use super::ending::Ending;
use super::heads::sender_name;
use super::summary::{Summary, Told};
use crate::arguments::{Arguments, Output};
use crate::drawing::bytes_of;
use crate::failure::Failure;
use crate::files::shown_bytes;
use crate::showing::write;
use std::alloc::{AllocError, Global};
use std::io::Write;
use wt_inspect_connection::list::{Channel, Sender};
use wt_inspect_connection::piece::{Piece, session_of};
use wt_inspection::End;
use wt_inspection::item::CloseReason;
use wt_inspection_views::escaped::add_name;
use wt_inspection_views::html::connection::{Anchor, ConnectionPage};
use wt_inspection_views::json_lines::{Lines, SessionClose, SessionLine, add_session_line};
use wt_inspection_views::painting::Style;
use wt_inspection_views::plain::PlainText;

impl Connection<'_> {
    /// Writes how the sessions went.
    pub(super) fn show_sessions<W: Write>(&self, output: &mut W) -> Result<(), Failure>
        requires { is_lines self.now.arguments.now.output ≡ true }
        ensures shows { IfOk result (λ _. (text : List ℕ)
            × Draws (has_colors self.now.arguments.now) (W.contents output.old)
            (W.contents output.new) text × ShowsSessions self.now text) }
        ensures fails { IfErr result StopsShowing }
    {
        let summaries = self.summaries()?;
        let found = summaries.as_slice();
        let text = lines_of(self.alloc, self.arguments, found)?;
        let lines = text.as_slice();
        write(output, lines)?;
        Ok(())
    }

    /// Adds how these sessions went to a page, whose verdicts were added.
    pub(super) fn add_sessions(
        &self,
        page: &mut ConnectionPage,
        summaries: &[Summary],
    ) -> Result<(), AllocError>
        ensures { IfOk result (λ _. AddsEntries (session_entries summaries.now) page.old.page
            page.new.page) }
    {
        if summaries.is_empty() {
            return Ok(());
        }
        page.sessions();
        self.add_each(page, summaries)
    }

    /// Adds how each of these sessions went to a page.
    fn add_each(&self, page: &mut ConnectionPage, summaries: &[Summary]) -> Result<(), AllocError>
        ensures { IfOk result (λ _. AddsEntries (session_entries summaries.now) page.old.page
            page.new.page) }
    {
        for summary in summaries {
            let words = words_of(self.alloc, summary, self.arguments.is_open)?;
            page.session(place_in(self.pieces, summary.id), words.as_str());
        }
        Ok(())
    }
}

/// Returns the place of the page where a session is: its stream, or if that was not recorded, the first
/// stream or datagram that names it.
fn place_in(pieces: &[Piece<'_>], id: u64) -> Anchor {
    let mut place = Anchor::Stream(id);
    let mut is_named = false;
    let mut number: u64 = 0;
    for piece in pieces {
        number = number.saturating_add(1);
        match piece.entry.channel {
            Channel::Stream(other) if other == id => return Anchor::Stream(id),
            _ if is_named || session_of(pieces, piece) != Some(id) => {}
            Channel::Stream(other) => {
                place = Anchor::Stream(other);
                is_named = true;
            }
            Channel::Datagram => {
                place = Anchor::Datagram(number);
                is_named = true;
            }
        }
    }
    place
}

/// Returns the lines of how sessions went.
fn lines_of(
    alloc: Global,
    arguments: &Arguments<'_>,
    summaries: &[Summary],
) -> Result<Vec<u8>, AllocError>
    requires { is_lines arguments.now.output ≡ true }
    ensures { IfOk result (λ lines. DrawsLines arguments.now.output arguments.now.has_colors
        (session_lines arguments.now.output (length summaries.now)) lines.items) }
{
    let is_open = arguments.is_open;
    match arguments.output {
        Output::Json => json_of(alloc, is_open, summaries),
        Output::Text | Output::Html => text_of(alloc, is_open, arguments.has_colors, summaries),
    }
}

// ---- text

/// Returns the lines of text.
fn text_of(
    alloc: Global,
    is_open: bool,
    colors: bool,
    summaries: &[Summary],
) -> Result<Vec<u8>, AllocError>
    ensures { IfOk result (λ lines. DrawsLines TextOutput «colors»
        (session_lines TextOutput (length summaries.now)) lines.items) }
{
    let mut text = PlainText::new(alloc);
    add_heading(&mut text, summaries.is_empty())?;
    add_lines(alloc, is_open, &mut text, summaries)?;
    bytes_of(text, colors)
}

/// Appends the heading of the sessions, unless there are none.
fn add_heading(text: &mut PlainText, is_empty: bool) -> Result<(), AllocError>
    ensures { IfOk result (λ _. line_count text.new
        ≡ line_count text.old + (if «is_empty» then 0 else 1)) }
{
    if is_empty {
        return Ok(());
    }
    text.add_styled(Style::Heading, "== sessions")
}

/// Appends a line for each session.
fn add_lines(
    alloc: Global,
    is_open: bool,
    text: &mut PlainText,
    summaries: &[Summary],
) -> Result<(), AllocError>
    ensures { IfOk result (λ _. line_count text.new
        ≡ line_count text.old + length summaries.now) }
{
    for summary in summaries {
        let words = words_of(alloc, summary, is_open)?;
        text.add_line(words.as_str())?;
    }
    Ok(())
}

/// Returns how a session went, in words.
fn words_of(alloc: Global, summary: &Summary, is_open: bool) -> Result<String, AllocError> {
    let id = summary.id;
    let mut words = format!(in alloc; "session {id}: ")?;
    add_request(&mut words, summary)?;
    add_response(&mut words, summary, is_open)?;
    add_count(&mut words, summary.streams, "stream")?;
    add_count(&mut words, summary.datagrams, "datagram")?;
    words.push(';')?;
    add_broken(&mut words, id, Sender::Client, &summary.client)?;
    add_broken(&mut words, id, Sender::Server, &summary.server)?;
    add_ending(alloc, &mut words, summary, is_open)?;
    Ok(words)
}

/// Appends the path and the authority of the request.
fn add_request(words: &mut String, summary: &Summary) -> Result<(), AllocError> {
    match &summary.client {
        Some(told) if told.said.head.is_some() => {
            match summary.path() {
                Some(path) => add_name(words, path)?,
                None => words.push_str("unknown path")?,
            }
            match summary.authority() {
                Some(authority) => {
                    words.push_str(" at ")?;
                    add_name(words, authority)
                }
                None => Ok(()),
            }
        }
        Some(_) => words.push_str("no request"),
        None => words.push_str("request not recorded"),
    }
}

/// Appends the status of the response, unless the last words have it.
fn add_response(words: &mut String, summary: &Summary, is_open: bool) -> Result<(), AllocError> {
    if summary.ending(is_open) == Ending::Refused {
        return Ok(());
    }
    match &summary.server {
        Some(told) if told.said.head.is_some() => add_status(words, ", ", summary),
        Some(_) => words.push_str(", no response"),
        None => words.push_str(", response not recorded"),
    }
}

/// Appends these words and the status of the response.
fn add_status(words: &mut String, before: &str, summary: &Summary) -> Result<(), AllocError> {
    words.push_str(before)?;
    match summary.status() {
        Some(status) => {
            words.push_str("status ")?;
            add_name(words, status)
        }
        None => words.push_str("unknown status"),
    }
}

/// Appends a number, and the word for what it counts.
fn add_count(words: &mut String, count: usize, word: &str) -> Result<(), AllocError> {
    let end = if count == 1 { "" } else { "s" };
    write!(words, ", {count} {word}{end}")
}

/// Appends where what an end sent on the stream of a session is broken, if it is.
fn add_broken(
    words: &mut String,
    id: u64,
    sender: Sender,
    told: &Option<Told>,
) -> Result<(), AllocError> {
    let by = sender_name(sender);
    match broken_at(told) {
        Some((true, at)) => write!(words, " stream {id} of the {by} has a fault at byte {at};"),
        Some((false, at)) => write!(words, " stream {id} of the {by} is cut at byte {at};"),
        None => Ok(()),
    }
}

/// Returns where what an end sent is broken, and whether that is a fault, if it is.
fn broken_at(told: &Option<Told>) -> Option<(bool, u64)> {
    match told {
        Some(told) => match told.end {
            End::Complete => None,
            End::Cut(cut) => Some((false, cut.at as u64)),
            End::Fault(fault) => Some((true, fault.at as u64)),
        },
        None => None,
    }
}

/// Appends how a session ended.
fn add_ending(
    alloc: Global,
    words: &mut String,
    summary: &Summary,
    is_open: bool,
) -> Result<(), AllocError> {
    match summary.ending(is_open) {
        Ending::Refused => add_status(words, " refused with ", summary),
        Ending::Closed => add_closes(alloc, words, summary),
        Ending::Open => words.push_str(" open"),
        Ending::Client => words.push_str(" ended by the client without a close (code 0)"),
        Ending::Server => words.push_str(" ended by the server without a close (code 0)"),
        Ending::Both => words.push_str(" ended by both ends without a close (code 0)"),
        Ending::Unknown => words.push_str(" end unknown"),
    }
}

/// Appends the closes of a session.
fn add_closes(alloc: Global, words: &mut String, summary: &Summary) -> Result<(), AllocError> {
    let client = close_in(&summary.client);
    let server = close_in(&summary.server);
    if let Some(close) = client {
        add_close(alloc, words, Sender::Client, close)?;
    }
    if client.is_some() && server.is_some() {
        words.push(';')?;
    }
    match server {
        Some(close) => add_close(alloc, words, Sender::Server, close),
        None => Ok(()),
    }
}

/// Returns the close that an end sent.
fn close_in(told: &Option<Told>) -> Option<&CloseReason> {
    match told {
        Some(told) => told.said.close.as_ref(),
        None => None,
    }
}

/// Appends the close of an end. A quotation mark in the reason is escaped, so the first one after the
/// code that follows begins the reason, and the next one ends it.
fn add_close(
    alloc: Global,
    words: &mut String,
    sender: Sender,
    close: &CloseReason,
) -> Result<(), AllocError> {
    let by = sender_name(sender);
    let code = close.code;
    write!(words, " closed by the {by}: code {code}")?;
    if close.reason.is_empty() {
        return Ok(());
    }
    let reason = shown_bytes(alloc, close.reason.as_bytes())?;
    words.push_str(", \"")?;
    for part in reason.as_str().chars() {
        match part {
            '"' => words.push_str("\\x22")?,
            part => words.push(part)?,
        }
    }
    words.push('"')
}

// ---- JSON

/// Returns the lines of JSON.
fn json_of(alloc: Global, is_open: bool, summaries: &[Summary]) -> Result<Vec<u8>, AllocError>
    ensures { IfOk result (λ lines. AreLinesOf JsonOutput
        (session_lines JsonOutput (length summaries.now)) lines.items) }
{
    let mut lines = Lines::new(alloc);
    for summary in summaries {
        add_session_line(&mut lines, &line_of(summary, is_open));
    }
    lines.into_bytes()
}

/// Returns what the line of JSON of a session has.
fn line_of(summary: &Summary, is_open: bool) -> SessionLine<'_> {
    let ending = summary.ending(is_open);
    let (close, also) = closes_in(summary, ending);
    SessionLine {
        session: summary.id,
        path: summary.path(),
        authority: summary.authority(),
        status: summary.status(),
        streams: summary.streams as u64,
        datagrams: summary.datagrams as u64,
        client: place_of(&summary.client, "client_fault", "client_cut"),
        server: place_of(&summary.server, "server_fault", "server_cut"),
        end: name_of(ending),
        by: ender_of(ending),
        close,
        also,
    }
}

/// Returns where what an end sent is broken, after the name of a fault or that of a cut.
fn place_of<'a>(told: &Option<Told>, fault: &'a str, cut: &'a str) -> Option<(&'a str, u64)> {
    match broken_at(told) {
        Some((true, at)) => Some((fault, at)),
        Some((false, at)) => Some((cut, at)),
        None => None,
    }
}

/// Returns the name of how a session ended.
fn name_of(ending: Ending) -> &'static str {
    match ending {
        Ending::Refused => "refused",
        Ending::Closed => "closed",
        Ending::Open => "open",
        Ending::Client | Ending::Server | Ending::Both => "ended",
        Ending::Unknown => "unknown",
    }
}

/// Returns which end ended a session without a close.
fn ender_of(ending: Ending) -> Option<&'static str> {
    match ending {
        Ending::Client => Some("client"),
        Ending::Server => Some("server"),
        Ending::Both => Some("both"),
        _ => None,
    }
}

/// Returns the first close of a session that was closed, and that of the other end.
fn closes_in(
    summary: &Summary,
    ending: Ending,
) -> (Option<SessionClose<'_>>, Option<SessionClose<'_>>) {
    if ending != Ending::Closed {
        return (None, None);
    }
    let client = json_close(Sender::Client, close_in(&summary.client));
    let server = json_close(Sender::Server, close_in(&summary.server));
    match client {
        Some(_) => (client, server),
        None => (server, None),
    }
}

/// Returns what the line of JSON has of a close.
fn json_close(sender: Sender, close: Option<&CloseReason>) -> Option<SessionClose<'_>> {
    match close {
        Some(close) => Some(SessionClose {
            by: sender_name(sender),
            code: close.code,
            reason: close.reason.as_str(),
        }),
        None => None,
    }
}
