//! Shows what was recorded of a connection: each direction of its streams, and its datagrams.

ghost use Rattle.std.specs.Io.KnownBytes.{Appends};
ghost use Rattle.std.specs.Prelude.{◌≡◌, ◌⊎◌, ◌+◌, ℕ, List, [], None, true, IfErr, IfOk};
ghost use Rattle.std.specs.Prelude.{if◌then◌else◌, is_some, length, sum_by};
ghost use Rattle.wt_inspect.specs.ConnectionShown.{ShowsConnection, ShowsParts, payload_item};
ghost use Rattle.wt_inspect.specs.ConnectionShown.{payload_items, refuses};
ghost use Rattle.wt_inspect.specs.Connections.{is_new, worse};
ghost use Rattle.wt_inspect.specs.Drawing.{Draws, has_colors, paints};
ghost use Rattle.wt_inspect.specs.PageShown.{IsConnectionOf, IsKnown, ShowsPage};
ghost use Rattle.wt_inspect.specs.Sheets.{AddsTo, HasSheet, is_lines, lines_for};
ghost use Rattle.wt_inspect.specs.Shown.{IsView, StopsShowing};
ghost use Rattle.wt_inspect.specs.declared.arguments.Output.{Output as OutputValue};

mod ending;
mod heads;
mod kinds;
mod page;
mod pieces;
mod session_lines;
mod sessions;
mod summary;
mod tables;
mod verdicts;

use crate::arguments::{Arguments, Output};
use crate::failure::Failure;
use crate::sheet::Sheet;
use crate::showing::{flush, show_lines, write, write_all_of};
use heads::{Head, head_lines, origin_of};
use kinds::{is_critical, recorded_of};
use pieces::{list_in, read_entries, read_pieces, read_text};
use sessions::{is_session, parts_in, sessions_in};
use std::alloc::{AllocError, Global};
use std::io::Write;
use tables::{Table, read_table};
use verdicts::{judge_both, show_verdicts};
use wt_inspect_connection::list::{Channel, Sender};
use wt_inspect_connection::part::{Group, Part, is_same_group};
use wt_inspect_connection::piece::{Piece, purpose_in};
use wt_inspect_connection::purpose::Purpose;
use wt_inspection::{Content, End, Item, Recorded};
use wtp_dynamic::error::EncoderStreamError;

/// Shows the connection whose list, or whose folder with a file `list`, the arguments name, how its
/// sessions went, and what each end would have said of the other. Returns the exit status: 0, or 2 if
/// something of it contains an error.
///
/// # Errors
///
/// Returns [`Failure::NotOfConnection`] if the arguments name an encoder stream, the failure of the
/// list or of one of its files, and those of [`show_pieces`] and [`show_page`].
pub fn show_connection(rt: &HostRuntime, arguments: &Arguments<'_>) -> Result<u8, Failure>
    ensures { IfOk result (λ status. (status ≡ 0) ⊎ (status ≡ 2)) }
{
    let alloc = rt.alloc();
    if is_refused(arguments) {
        return Err(Failure::NotOfConnection);
    }
    let list = list_in(rt, alloc, arguments.file)?;
    let in_folder = list.as_ref().map(|path| path.as_str());
    let text = read_text(rt, alloc, in_folder, arguments.file)?;
    let arguments = &Arguments {
        file: in_folder.or(arguments.file),
        ..*arguments
    };
    let entries = read_entries(rt, alloc, arguments.file, text.as_slice())?;
    let pieces = read_pieces(rt, alloc, arguments, entries.as_slice())?;
    match arguments.output {
        Output::Html => show_page(alloc, arguments, pieces.as_slice(), &mut rt.stdout()),
        Output::Text | Output::Json => {
            let shown = show_pieces(alloc, arguments, pieces.as_slice(), &mut rt.stdout())?;
            let judged = show_verdicts(alloc, arguments, pieces.as_slice(), &mut rt.stdout())?;
            Ok(worse(shown, judged))
        }
    }
}

/// Returns whether the arguments have something that is not for a connection.
fn is_refused(arguments: &Arguments<'_>) -> bool
    ensures { result ≡ refuses arguments.now }
{
    arguments.encoder.is_some()
}

/// What is known of a connection as a whole.
#[derive(Clone, Copy)]
struct Connection<'a> {
    alloc: Global,
    arguments: &'a Arguments<'a>,
    pieces: &'a [Piece<'a>],
    /// What the client's field sections refer to.
    client: &'a Table<'a>,
    /// What the server's field sections refer to.
    server: &'a Table<'a>,
    /// The IDs of the sessions.
    sessions: &'a [u64],
}

/// Shows these pieces of a connection, and how its sessions went. Returns the exit status.
fn show_pieces<W: Write>(
    alloc: Global,
    arguments: &Arguments<'_>,
    pieces: &[Piece<'_>],
    output: &mut W,
) -> Result<u8, Failure>
    requires { is_lines arguments.now.output ≡ true }
    ensures shows { IfOk result (λ status. (text : List ℕ)
        × Draws (has_colors arguments.now) (W.contents output.old) (W.contents output.new) text
        × ShowsConnection arguments.now pieces.now text status) }
    ensures statuses { IfOk result (λ status. (status ≡ 0) ⊎ (status ≡ 2)) }
    ensures fails { IfErr result StopsShowing }
{
    let known = Known::read(alloc, pieces)?;
    let connection = known.connection(alloc, arguments, pieces);
    let status = connection.show_parts(known.parts.as_slice(), output)?;
    connection.show_sessions(output)?;
    Ok(status)
}

/// Shows these pieces of a connection, how its sessions went, and what each end would have said of the
/// other, as a page. Returns the exit status.
fn show_page<W: Write>(
    alloc: Global,
    arguments: &Arguments<'_>,
    pieces: &[Piece<'_>],
    output: &mut W,
) -> Result<u8, Failure>
    ensures shows { IfOk result (λ status. (text : List ℕ)
        × Appends (W.contents output.old) (W.contents output.new) text
        × ShowsPage arguments.now pieces.now text status) }
    ensures statuses { IfOk result (λ status. (status ≡ 0) ⊎ (status ≡ 2)) }
    ensures fails { IfErr result StopsShowing }
{
    let known = Known::read(alloc, pieces)?;
    let verdicts = judge_both(alloc, arguments, pieces)?;
    let connection = known.connection(alloc, arguments, pieces);
    connection.show_page(known.parts.as_slice(), &verdicts, output)
}

/// What the pieces of a connection say of it as a whole.
#[derive(Drop)]
struct Known<'a> {
    /// What the client's field sections refer to.
    client: Table<'a>,
    /// What the server's field sections refer to.
    server: Table<'a>,
    /// The IDs of the sessions.
    sessions: Vec<u64>,
    /// The parts, in their order.
    parts: Vec<Part>,
}

impl<'a> Known<'a> {
    /// Reads what these pieces say of their connection.
    fn read(alloc: Global, pieces: &'a [Piece<'_>]) -> Result<Self, AllocError>
        ensures { IfOk result (λ known. IsKnown pieces.entry.now known) }
    {
        let client = read_table(alloc, pieces, Sender::Client)?;
        let server = read_table(alloc, pieces, Sender::Server)?;
        let sessions = sessions_in(alloc, pieces, client.insertions())?;
        let parts = parts_in(alloc, pieces, sessions.as_slice())?;
        Ok(Known {
            client,
            server,
            sessions,
            parts,
        })
    }

    /// Returns these pieces of a connection, with these arguments and what is known of it.
    fn connection<'k>(
        &'k self,
        alloc: Global,
        arguments: &'k Arguments<'k>,
        pieces: &'k [Piece<'k>],
    ) -> Connection<'k>
        ensures { IsConnectionOf self.now arguments.now pieces.now result }
    {
        Connection {
            alloc,
            arguments,
            pieces,
            client: &self.client,
            server: &self.server,
            sessions: self.sessions.as_slice(),
        }
    }
}

impl Connection<'_> {
    ghost use Rattle.wt_inspect.specs.ConnectionShown.{ShowsBytes, ShowsPart, ShowsPiece};
    ghost use Rattle.wt_inspect.specs.ConnectionShown.{arguments_for, fault_in, table_of};
    ghost use Rattle.wt_inspect.specs.Connections.{is_critical_one, purpose_on, recorded_on};

    /// Shows these parts. Returns the exit status.
    fn show_parts<W: Write>(&self, parts: &[Part], output: &mut W) -> Result<u8, Failure>
        requires { is_lines self.now.arguments.now.output ≡ true }
        ensures shows { IfOk result (λ status. (text : List ℕ)
            × Draws (has_colors self.now.arguments.now) (W.contents output.old)
            (W.contents output.new) text
            × ShowsParts self.now None parts.now text status) }
        ensures statuses { IfOk result (λ status. (status ≡ 0) ⊎ (status ≡ 2)) }
        ensures fails { IfErr result StopsShowing }
    {
        let mut status = 0;
        let mut before = None;
        for part in parts {
            let shown = self.show_part(part, is_new(before, part.group), output)?;
            status = worse(status, shown);
            before = Some(part.group);
        }
        flush(output)?;
        Ok(status)
    }

    /// Shows a part, with the heading of its group if it is the first there. Returns the exit
    /// status.
    fn show_part<W: Write>(
        &self,
        part: &Part,
        is_first: bool,
        output: &mut W,
    ) -> Result<u8, Failure>
        requires { is_lines self.now.arguments.now.output ≡ true }
        ensures shows { IfOk result (λ status. (text : List ℕ)
            × Draws (has_colors self.now.arguments.now) (W.contents output.old)
            (W.contents output.new) text
            × ShowsPart self.now «is_first» part.now text status) }
        ensures statuses { IfOk result (λ status. (status ≡ 0) ⊎ (status ≡ 2)) }
        ensures fails { IfErr result StopsShowing }
    {
        match self.pieces.get(part.index) {
            Some(piece) => self.show_piece(part, piece, is_first, output),
            None => Ok(0),
        }
    }

    /// Shows a piece, which is this part. Returns the exit status.
    fn show_piece<W: Write>(
        &self,
        part: &Part,
        piece: &Piece<'_>,
        is_first: bool,
        output: &mut W,
    ) -> Result<u8, Failure>
        requires { is_lines self.now.arguments.now.output ≡ true }
        ensures shows { IfOk result (λ status. (text : List ℕ)
            × Draws (has_colors self.now.arguments.now) (W.contents output.old)
            (W.contents output.new) text
            × ShowsPiece self.now «is_first» piece.now text status) }
        ensures statuses { IfOk result (λ status. (status ≡ 0) ⊎ (status ≡ 2)) }
        ensures fails { IfErr result StopsShowing }
    {
        let head = Head {
            entry: piece.entry,
            length: piece.bytes.len(),
            group: part.group,
            index: part.index,
            purpose: self.purpose_of(piece),
            is_first,
            fault: self.fault_in(piece),
        };
        let lines = head_lines(self.alloc, self.arguments, &head)?;
        write(output, lines.as_slice())?;
        let shown = self.show_bytes(part, piece, output)?;
        Ok(status_with(head.fault, shown))
    }

    /// Shows the bytes of a piece. Returns the exit status.
    fn show_bytes<W: Write>(
        &self,
        part: &Part,
        piece: &Piece<'_>,
        output: &mut W,
    ) -> Result<u8, Failure>
        requires { is_lines self.now.arguments.now.output ≡ true }
        ensures shows { IfOk result (λ status. (text : List ℕ)
            × Draws (has_colors self.now.arguments.now) (W.contents output.old)
            (W.contents output.new) text
            × ShowsBytes self.now piece.now text status) }
        ensures statuses { IfOk result (λ status. (status ≡ 0) ⊎ (status ≡ 2)) }
        ensures fails { IfErr result StopsShowing }
    {
        let bytes = piece.bytes.as_slice();
        let sheet = self.sheet_for(part, piece);
        match self.recorded(piece) {
            Some(recorded) => {
                let arguments = self.arguments_for(recorded, piece);
                let sent = self.table_of(piece.entry.sender).insertions();
                show_lines(self.alloc, &arguments, sent, bytes, sheet, output)
            }
            None => show_payload(self.arguments, bytes, sheet, output),
        }
    }

    /// Returns the sheet for a piece.
    fn sheet_for(&self, part: &Part, piece: &Piece<'_>) -> Sheet
        requires { is_lines self.now.arguments.now.output ≡ true }
        ensures { HasSheet self.now.arguments.now.output 0 result }
    {
        match self.arguments.output {
            Output::Json => Sheet::about(self.alloc, origin_of(piece.entry, part.index)),
            _ => Sheet::text(self.alloc),
        }
    }

    /// Returns what a stream is for.
    fn purpose_of(&self, piece: &Piece<'_>) -> Option<Purpose>
        ensures { result ≡ purpose_on self.now.pieces.now piece.now.entry.channel }
    {
        match piece.entry.channel {
            Channel::Stream(id) => Some(purpose_in(self.pieces, id)),
            Channel::Datagram => None,
        }
    }

    /// Returns the kind of recording that a piece is, or `None` if all its bytes are an
    /// application's.
    fn recorded(&self, piece: &Piece<'_>) -> Option<Recorded>
        ensures { result ≡ recorded_on self.now.pieces.now self.now.sessions.now
            piece.now.entry.sender piece.now.entry.channel }
    {
        match piece.entry.channel {
            Channel::Stream(id) => recorded_of(
                id,
                piece.entry.sender,
                purpose_in(self.pieces, id),
                is_session(self.sessions, id),
            ),
            Channel::Datagram => Some(Recorded::Datagram),
        }
    }

    /// Returns the arguments with which a piece of this kind is shown. The control streams and those
    /// of QPACK are open as long as the connection.
    fn arguments_for(&self, recorded: Recorded, piece: &Piece<'_>) -> Arguments<'_>
        ensures { result ≡ arguments_for self.now recorded piece.now.entry.channel }
    {
        let is_open = self.arguments.is_open || self.is_critical(piece);
        Arguments {
            recorded,
            is_open,
            ..*self.arguments
        }
    }

    /// Returns whether a piece is of a control stream or of one of QPACK.
    fn is_critical(&self, piece: &Piece<'_>) -> bool
        ensures { result
            ≡ is_critical_one (purpose_on self.now.pieces.now piece.now.entry.channel) }
    {
        match self.purpose_of(piece) {
            Some(purpose) => is_critical(purpose),
            None => false,
        }
    }

    /// Returns what the field sections of an end refer to.
    fn table_of(&self, sender: Sender) -> &Table<'_>
        ensures { result.now ≡ table_of self.now sender }
    {
        match sender {
            Sender::Client => self.client,
            Sender::Server => self.server,
        }
    }

    /// Returns the fault of an encoder stream.
    fn fault_in(&self, piece: &Piece<'_>) -> Option<EncoderStreamError>
        ensures { result ≡ fault_in self.now piece.now }
    {
        match self.purpose_of(piece) {
            Some(Purpose::Encoder) => self.table_of(piece.entry.sender).fault(),
            _ => None,
        }
    }
}

/// Shows bytes that are all an application's. Returns the exit status.
fn show_payload<W: Write>(
    arguments: &Arguments<'_>,
    bytes: &[u8],
    sheet: Sheet,
    output: &mut W,
) -> Result<u8, Failure>
    ensures shows { IfOk result (λ status. (format : OutputValue) → HasSheet format 0 sheet
        → (text : List ℕ) × Draws (paints format arguments.now.has_colors)
        (W.contents output.old) (W.contents output.new) text
        × IsView format arguments.now.has_payload bytes.now (payload_items bytes.now) [] text × (status ≡ 0)) }
    ensures fails { IfErr result StopsShowing }
{
    let mut sheet = sheet;
    add_payload(&mut sheet, bytes, arguments.has_payload);
    sheet.add_end(End::Complete, bytes.len());
    write_all_of(&mut sheet, arguments.has_colors, output)?;
    Ok(0)
}

/// Adds the item of these bytes, if there are some.
fn add_payload(sheet: &mut Sheet, bytes: &[u8], payload: bool)
    ensures { (output : OutputValue) → AddsTo output (sum_by (lines_for output «payload» bytes.now)
        (payload_items bytes.now)) sheet.old sheet.new }
{
    if bytes.is_empty() {
        return;
    }
    add_payload_item(sheet, bytes, payload)
}

/// Adds the item of these bytes.
fn add_payload_item(sheet: &mut Sheet, bytes: &[u8], payload: bool)
    ensures { (output : OutputValue) → AddsTo output (lines_for output «payload» bytes.now
        (payload_item (length bytes.now)) + 0) sheet.old sheet.new }
{
    let item = Item {
        at: 0,
        length: bytes.len(),
        content: Content::Payload,
    };
    sheet.add_item(&item, bytes, payload, &[]);
    drop(item)
}

/// Returns whether a group is not the one before.
fn is_new(before: Option<Group>, group: Group) -> bool
    ensures { result ≡ is_new before group }
{
    match before {
        Some(before) => !is_same_group(before, group),
        None => true,
    }
}

/// Returns the status of a part with this status of its bytes, and with this fault.
fn status_with(fault: Option<EncoderStreamError>, shown: u8) -> u8
    ensures status { result ≡ (if is_some fault then 2 else shown) }
    ensures statuses { (shown ≡ 0) ⊎ (shown ≡ 2) → (result ≡ 0) ⊎ (result ≡ 2) }
{
    if fault.is_some() { 2 } else { shown }
}

/// Returns the status of two parts: 2, if one of them has it.
fn worse(one: u8, other: u8) -> u8
    ensures { result ≡ worse one other }
{
    if one == 2 { 2 } else { other }
}
