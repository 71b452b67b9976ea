//! What is written of a piece before its items.

ghost use Rattle.std.specs.Prelude.{◌≡◌, ◌+◌, true, IfOk, is_some};
ghost use Rattle.wt_inspect.specs.ConnectionShown.{count_if, head_count};
ghost use Rattle.wt_inspect.specs.Sheets.{AreLinesOf, DrawsLines, is_lines};
ghost use Rattle.wt_inspect.specs.declared.arguments.Output.TheVariants.{Json as JsonOutput, Text as TextOutput};
ghost use Rattle.wt_inspection_views.specs.Escaped.{line_count};

use crate::arguments::{Arguments, Output};
use crate::drawing::bytes_of;
use crate::failure::Failure;
use crate::files::shown_name;
use std::alloc::{AllocError, Global};
use wt_inspect_connection::list::{Channel, Entry, Sender};
use wt_inspect_connection::part::Group;
use wt_inspect_connection::purpose::Purpose;
use wt_inspection_views::json_lines::{Lines, Origin, PartHead, add_part};
use wt_inspection_views::painting::Style;
use wt_inspection_views::plain::PlainText;
use wtp_dynamic::error::EncoderStreamError;

/// What is known of a piece before its bytes are read.
#[derive(Clone, Copy)]
pub(super) struct Head<'a> {
    /// What was sent, and by which end.
    pub(super) entry: Entry<'a>,
    /// Its number of bytes.
    pub(super) length: usize,
    /// Where it is shown.
    pub(super) group: Group,
    /// Its place in the list.
    pub(super) index: usize,
    /// What its stream is for; `None` for a datagram.
    pub(super) purpose: Option<Purpose>,
    /// Whether it is the first of its group.
    pub(super) is_first: bool,
    /// The fault of its instructions, if it is an encoder stream that has one.
    pub(super) fault: Option<EncoderStreamError>,
}

/// Returns the lines that are written of a piece before its items.
pub(super) fn head_lines(
    alloc: Global,
    arguments: &Arguments<'_>,
    head: &Head<'_>,
) -> Result<Vec<u8>, AllocError>
    requires { is_lines arguments.now.output ≡ true }
    ensures { IfOk result (λ lines. DrawsLines arguments.now.output arguments.now.has_colors
        (head_count arguments.now.output head.now.is_first head.now.fault) lines.items) }
{
    match arguments.output {
        Output::Json => json_head(alloc, head),
        Output::Text | Output::Html => text_head(alloc, arguments.has_colors, head),
    }
}

/// Returns the lines of text: the heading of a group, if the piece is its first, that of the piece,
/// and its fault, if it has one.
fn text_head(alloc: Global, colors: bool, head: &Head<'_>) -> Result<Vec<u8>, AllocError>
    ensures { IfOk result (λ lines. DrawsLines TextOutput «colors»
        (head_count TextOutput head.now.is_first head.now.fault) lines.items) }
{
    let mut text = PlainText::new(alloc);
    add_group(alloc, &mut text, head)?;
    let heading = piece_heading(alloc, head.entry, head.purpose)?;
    let words = format!(in alloc; "-- {heading}")?;
    text.add_styled(Style::Heading, words.as_str())?;
    add_fault(alloc, &mut text, head)?;
    bytes_of(text, colors)
}

/// Appends the heading of a group, if the piece is its first.
fn add_group(alloc: Global, text: &mut PlainText, head: &Head<'_>) -> Result<(), AllocError>
    ensures { IfOk result (λ _. line_count text.new
        ≡ line_count text.old + count_if head.now.is_first) }
{
    if !head.is_first {
        return Ok(());
    }
    let heading = group_heading(alloc, head.group)?;
    let words = format!(in alloc; "== {heading}")?;
    text.add_styled(Style::Heading, words.as_str())
}

/// Appends the fault of a piece, if it has one.
fn add_fault(alloc: Global, text: &mut PlainText, head: &Head<'_>) -> Result<(), AllocError>
    ensures { IfOk result (λ _. line_count text.new
        ≡ line_count text.old + count_if (is_some head.now.fault)) }
{
    match head.fault {
        Some(fault) => {
            let words = fault_words(alloc, fault)?;
            text.add_styled(Style::Fault, words.as_str())
        }
        None => Ok(()),
    }
}

/// Returns the line of JSON.
fn json_head(alloc: Global, head: &Head<'_>) -> Result<Vec<u8>, AllocError>
    ensures { IfOk result (λ lines. AreLinesOf JsonOutput 1 lines.items) }
{
    let file = String::from_str(alloc, head.entry.file)?;
    match head.fault {
        Some(fault) => {
            let words = fault_words(alloc, fault)?;
            json_line(
                alloc,
                head,
                &broken_part(head, file.as_str(), words.as_str()),
            )
        }
        None => json_line(alloc, head, &whole_part(head, file.as_str())),
    }
}

/// Returns the line of JSON that has this.
fn json_line(alloc: Global, head: &Head<'_>, part: &PartHead<'_>) -> Result<Vec<u8>, AllocError>
    ensures { IfOk result (λ lines. AreLinesOf JsonOutput 1 lines.items) }
{
    let mut lines = Lines::about(alloc, Some(origin_of(head.entry, head.index)));
    add_part(&mut lines, part);
    lines.into_bytes()
}

/// Returns what the line of JSON has of a piece in this file.
fn whole_part<'a>(head: &Head<'_>, file: &'a str) -> PartHead<'a> {
    PartHead {
        purpose: name_of(head.purpose, head.entry.sender),
        group: group_name(head.group),
        id: group_id(head.group),
        file,
        length: head.length,
        fault: None,
    }
}

/// Returns what the line of JSON has of a piece in this file, which has this fault.
fn broken_part<'a>(head: &Head<'_>, file: &'a str, fault: &'a str) -> PartHead<'a> {
    PartHead {
        purpose: name_of(head.purpose, head.entry.sender),
        group: group_name(head.group),
        id: group_id(head.group),
        file,
        length: head.length,
        fault: Some(fault),
    }
}

/// Returns what each line of JSON of an entry with this place in the list begins with: its stream, or
/// that place for a datagram, from 1; and the end that sent it.
pub(super) fn origin_of(entry: Entry<'_>, index: usize) -> Origin {
    let from = sender_name(entry.sender);
    match entry.channel {
        Channel::Stream(id) => Origin {
            name: "on_stream",
            number: id,
            from,
        },
        Channel::Datagram => Origin {
            name: "datagram",
            number: (index as u64).saturating_add(1),
            from,
        },
    }
}

/// Returns the heading of a group.
pub(super) fn group_heading(alloc: Global, group: Group) -> Result<String, AllocError> {
    match group {
        Group::Control => String::from_str(alloc, "control streams"),
        Group::Qpack => String::from_str(alloc, "QPACK streams"),
        Group::Session(id) => format!(in alloc; "session {id}"),
        Group::Request(id) => format!(in alloc; "request {id}"),
        Group::Other => String::from_str(alloc, "other streams and datagrams"),
    }
}

/// Returns the heading of a piece, whose stream is for this.
pub(super) fn piece_heading(
    alloc: Global,
    entry: Entry<'_>,
    purpose: Option<Purpose>,
) -> Result<String, AllocError> {
    let from = sender_name(entry.sender);
    let name = name_of(purpose, entry.sender);
    let file = shown_name(alloc, entry.file)?;
    match entry.channel {
        Channel::Stream(id) => format!(in alloc; "stream {id} from the {from}, {name}: {file}"),
        Channel::Datagram => format!(in alloc; "datagram from the {from}: {file}"),
    }
}

/// Returns the words of a fault of an encoder stream.
pub(super) fn fault_words(alloc: Global, fault: EncoderStreamError) -> Result<String, AllocError> {
    let failure = Failure::Encoder(fault);
    format!(in alloc; "fault: {failure}")
}

/// Returns the name of an end.
pub(super) fn sender_name(sender: Sender) -> &'static str {
    match sender {
        Sender::Client => "client",
        Sender::Server => "server",
    }
}

/// Returns the name of what an end sent on a stream that is for this, or in a datagram.
fn name_of(purpose: Option<Purpose>, sender: Sender) -> &'static str {
    match (purpose, sender) {
        (None, _) => "datagram",
        (Some(Purpose::Control), _) => "control",
        (Some(Purpose::Push), _) => "push",
        (Some(Purpose::Encoder), _) => "QPACK encoder",
        (Some(Purpose::Decoder), _) => "QPACK decoder",
        (Some(Purpose::Session(_)), _) => "WebTransport",
        (Some(Purpose::Request), Sender::Client) => "request",
        (Some(Purpose::Request), Sender::Server) => "response",
        (Some(Purpose::Other), _) => "other",
    }
}

/// Returns the name of a group.
fn group_name(group: Group) -> &'static str {
    match group {
        Group::Control => "control",
        Group::Qpack => "QPACK",
        Group::Session(_) => "session",
        Group::Request(_) => "request",
        Group::Other => "other",
    }
}

/// Returns the ID of a group, if it has one.
fn group_id(group: Group) -> Option<u64> {
    match group {
        Group::Session(id) | Group::Request(id) => Some(id),
        Group::Control | Group::Qpack | Group::Other => None,
    }
}
