//! Shows a connection as one page of HTML.

ghost use Rattle.std.specs.Io.KnownBytes.{Appends};
ghost use Rattle.std.specs.List.{list_any};
ghost use Rattle.std.specs.Prelude.{◌≡◌, ◌⊎◌, ◌∷◌, [], ℕ, List, IfErr, IfOk, map};
ghost use Rattle.wt_inspect.specs.PageShown.{AddsView, AddsViews, AreViews, IsAllPayload, IsInspected, IsViewOf};
ghost use Rattle.wt_inspect.specs.PageShown.{ShowsViews, fails, is_server, page_entries, status_by};
ghost use Rattle.wt_inspect.specs.PageShown.{verdict_entries, view_entry};
ghost use Rattle.wt_inspect.specs.Shown.{StopsShowing};
ghost use Rattle.wt_inspection_views.specs.Html.{AddsEntries, IsPageOf, KeepsEntries};

use super::heads::{fault_words, group_heading, piece_heading};
use super::summary::Summary;
use super::verdicts::{Verdicts, breaks_rule, has_fault_in, words_of};
use super::{Connection, is_new};
use crate::failure::Failure;
use crate::showing::{flush, has_breach, status_of, title_of, write};
use std::alloc::{AllocError, Global};
use std::io::Write;
use wt_inspect_connection::list::{Channel, Sender};
use wt_inspect_connection::part::{Group, Part, Role};
use wt_inspect_connection::piece::Piece;
use wt_inspect_connection::purpose::Purpose;
use wt_inspect_verdicts::verdict::{Place, Verdict};
use wt_inspection::{Content, End, Inspection, Item, inspect_with};
use wt_inspection_views::html::connection::{Anchor, ConnectionPage, Overview, Row, Sent};

/// A piece of a connection, and what its bytes contain.
#[derive(Drop)]
pub(super) struct View<'a> {
    /// Where it is shown.
    part: Part,
    /// The piece.
    piece: &'a Piece<'a>,
    /// What its bytes contain.
    inspection: Inspection,
}

impl Connection<'_> {
    /// Writes these parts, how the sessions went, and what each end would have said, as a page. Returns
    /// the exit status.
    pub(super) fn show_page<W: Write>(
        &self,
        parts: &[Part],
        verdicts: &Verdicts,
        output: &mut W,
    ) -> Result<u8, Failure>
        ensures shows { IfOk result (λ status. (text : List ℕ)
            × Appends (W.contents output.old) (W.contents output.new) text
            × ShowsViews self.now verdicts.now parts.now text status) }
        ensures statuses { IfOk result (λ status. (status ≡ 0) ⊎ (status ≡ 2)) }
        ensures fails { IfErr result StopsShowing }
    {
        let found = self.views_of(parts)?;
        let views = found.as_slice();
        let sums = self.summaries()?;
        let summaries = sums.as_slice();
        let page = self.page_of(verdicts, summaries, views)?;
        write(output, page.as_slice())?;
        flush(output)?;
        Ok(self.status_by(verdicts, views))
    }

    /// Returns the exit status: 2 if a piece contains an error, or an end broke a rule, and otherwise
    /// 0.
    fn status_by(&self, verdicts: &Verdicts, views: &[View<'_>]) -> u8
        ensures status { result ≡ status_by self.now verdicts.now views.now }
        ensures statuses { (result ≡ 0) ⊎ (result ≡ 2) }
    {
        if has_fault_in(verdicts) || self.has_failed(views) {
            2
        } else {
            0
        }
    }

    /// Returns whether one of these pieces contains an error.
    fn has_failed(&self, views: &[View<'_>]) -> bool
        ensures { result ≡ list_any (fails self.now) views.now }
    {
        views.iter().any(|view| self.fails(view))
    }

    /// Returns whether a piece contains an error, as its status says.
    fn fails(&self, view: &View<'_>) -> bool
        ensures { result ≡ fails self.now view.now }
    {
        let is_breached = has_breach(view.inspection.warnings.as_slice());
        self.fault_in(view.piece).is_some()
            || status_of(self.arguments.is_strict, view.inspection.end, is_breached) == 2
    }

    /// Returns the pieces that are these parts, with what their bytes contain.
    fn views_of(&self, parts: &[Part]) -> Result<Vec<View<'_>>, AllocError>
        ensures { IfOk result (λ views. AreViews self.now parts.now views.items) }
    {
        let mut views = Vec::new(self.alloc);
        for part in parts {
            self.add_part(&mut views, *part)?;
        }
        Ok(views)
    }

    /// Appends the piece that is this part, with what its bytes contain.
    fn add_part<'p>(&'p self, views: &mut Vec<View<'p>>, part: Part) -> Result<(), AllocError>
        ensures { IfOk result (λ _. AddsViews self.now part views.old.items views.new.items) }
    {
        match self.pieces.get(part.index) {
            Some(piece) => self.add_piece(views, part, piece),
            None => Ok(()),
        }
    }

    /// Appends a piece, which is this part, with what its bytes contain.
    fn add_piece<'p>(
        &self,
        views: &mut Vec<View<'p>>,
        part: Part,
        piece: &'p Piece<'p>,
    ) -> Result<(), AllocError>
        ensures { IfOk result (λ _. AddsView self.now part piece.now views.old.items
            views.new.items) }
    {
        let view = self.view_of(part, piece)?;
        views.push(view)?;
        Ok(())
    }

    /// Returns a piece, which is this part, with what its bytes contain.
    fn view_of<'p>(&self, part: Part, piece: &'p Piece<'p>) -> Result<View<'p>, AllocError>
        ensures { IfOk result (λ view. IsViewOf self.now part piece.now view) }
    {
        let inspection = self.inspect(piece)?;
        Ok(View {
            part,
            piece,
            inspection,
        })
    }

    /// Returns what the bytes of a piece contain.
    fn inspect(&self, piece: &Piece<'_>) -> Result<Inspection, AllocError>
        ensures { IfOk result (λ found. IsInspected self.now piece.now found) }
    {
        let bytes = piece.bytes.as_slice();
        match self.recorded(piece) {
            Some(recorded) => {
                let arguments = self.arguments_for(recorded, piece);
                let sent = self.table_of(piece.entry.sender).insertions();
                inspect_with(
                    self.alloc,
                    arguments.recorded,
                    bytes,
                    arguments.is_open,
                    sent,
                )
            }
            None => inspect_payload(self.alloc, bytes),
        }
    }

    /// Returns the page.
    fn page_of(
        &self,
        verdicts: &Verdicts,
        summaries: &[Summary],
        views: &[View<'_>],
    ) -> Result<Vec<u8>, AllocError>
        ensures { IfOk result (λ page. IsPageOf (page_entries verdicts.now summaries.now views.now)
            page.items) }
    {
        let title = title_of(self.alloc, self.arguments)?;
        let mut page = ConnectionPage::new(self.alloc, &overview_of(title.as_str(), views));
        let server = verdicts.server.as_slice();
        let client = verdicts.client.as_slice();
        add_verdicts(self.alloc, &mut page, Sender::Server, server)?;
        add_verdicts(self.alloc, &mut page, Sender::Client, client)?;
        self.add_sessions(&mut page, summaries)?;
        self.add_views(&mut page, views)?;
        page.finish()
    }

    /// Adds these pieces to a page.
    fn add_views(&self, page: &mut ConnectionPage, views: &[View<'_>]) -> Result<(), AllocError>
        ensures { IfOk result (λ _. AddsEntries (map view_entry views.now) page.old.page
            page.new.page) }
    {
        let mut before = None;
        for view in views {
            let row = row_of(self.purpose_of(view.piece));
            begin_stream(self.alloc, page, before, view, row)?;
            self.add_view(page, view)?;
            before = Some(view.part);
        }
        Ok(())
    }

    /// Adds a piece to a page.
    fn add_view(&self, page: &mut ConnectionPage, view: &View<'_>) -> Result<(), AllocError>
        ensures { IfOk result (λ _. AddsEntries (view_entry view.now ∷ []) page.old.page
            page.new.page) }
    {
        let purpose = self.purpose_of(view.piece);
        let heading = piece_heading(self.alloc, view.piece.entry, purpose)?;
        let fault = self.fault_of(view.piece)?;
        match fault {
            Some(fault) => {
                page.sent(&broken_sent(view, heading.as_str(), fault.as_str()));
                Ok(())
            }
            None => {
                page.sent(&whole_sent(view, heading.as_str()));
                Ok(())
            }
        }
    }

    /// Returns the words of the fault of an encoder stream, if it has one.
    fn fault_of(&self, piece: &Piece<'_>) -> Result<Option<String>, AllocError> {
        match self.fault_in(piece) {
            Some(fault) => Ok(Some(fault_words(self.alloc, fault)?)),
            None => Ok(None),
        }
    }
}

/// Returns what bytes contain that are all an application's.
fn inspect_payload(alloc: Global, bytes: &[u8]) -> Result<Inspection, AllocError>
    ensures { IfOk result (λ found. IsAllPayload bytes.now found) }
{
    let mut items = Vec::new(alloc);
    if !bytes.is_empty() {
        items.push(Item {
            at: 0,
            length: bytes.len(),
            content: Content::Payload,
        })?;
    }
    Ok(Inspection {
        items,
        warnings: Vec::new(alloc),
        end: End::Complete,
    })
}

/// Returns what an end sent, with this heading.
fn whole_sent<'a>(view: &'a View<'_>, heading: &'a str) -> Sent<'a>
    ensures { result.is_server ≡ is_server view.now.piece.now.entry.sender }
{
    Sent {
        is_server: is_server(view.piece.entry.sender),
        heading,
        fault: None,
        inspection: &view.inspection,
        bytes: view.piece.bytes.as_slice(),
    }
}

/// Returns what an end sent, with this heading and this fault.
fn broken_sent<'a>(view: &'a View<'_>, heading: &'a str, fault: &'a str) -> Sent<'a>
    ensures { result.is_server ≡ is_server view.now.piece.now.entry.sender }
{
    Sent {
        is_server: is_server(view.piece.entry.sender),
        heading,
        fault: Some(fault),
        inspection: &view.inspection,
        bytes: view.piece.bytes.as_slice(),
    }
}

/// Returns whether this end is the server.
fn is_server(sender: Sender) -> bool
    ensures { result ≡ is_server sender }
{
    match sender {
        Sender::Client => false,
        Sender::Server => true,
    }
}

/// Returns the title of the page of these pieces, and how much they have.
fn overview_of<'a>(title: &'a str, views: &[View<'_>]) -> Overview<'a> {
    let mut overview = Overview {
        title,
        streams: 0,
        datagrams: 0,
        bytes: 0,
        items: 0,
    };
    let mut before = None;
    for view in views {
        match view.piece.entry.channel {
            Channel::Stream(_) if is_of_stream(before, view.part) => {}
            Channel::Stream(_) => overview.streams = overview.streams.saturating_add(1),
            Channel::Datagram => overview.datagrams = overview.datagrams.saturating_add(1),
        }
        overview.bytes = overview.bytes.saturating_add(view.piece.bytes.len());
        overview.items = overview.items.saturating_add(view.inspection.items.len());
        before = Some(view.part);
    }
    overview
}

/// Returns whether a part is of the same stream as the part before it.
fn is_of_stream(before: Option<Part>, part: Part) -> bool {
    match (before, part.role) {
        (_, Role::Datagram) | (None, _) => false,
        (Some(before), _) => before.role != Role::Datagram && before.id == part.id,
    }
}

/// Adds what an end would have said to a page.
fn add_verdicts(
    alloc: Global,
    page: &mut ConnectionPage,
    by: Sender,
    verdicts: &[Verdict],
) -> Result<(), AllocError>
    ensures { IfOk result (λ _. AddsEntries (verdict_entries verdicts.now) page.old.page
        page.new.page) }
{
    for verdict in verdicts {
        let words = words_of(alloc, by, verdict)?;
        let place = place_of(verdict.place);
        page.verdict(breaks_rule(verdict), place, words.as_str());
    }
    Ok(())
}

/// Returns the place of the page where something was found.
fn place_of(place: Place) -> Anchor {
    match place {
        Place::Stream(id) => Anchor::Stream(id),
        Place::Datagram(index) => datagram_at(index),
    }
}

/// Returns the place of the datagram with this place in the list, which is counted from 1.
fn datagram_at(index: usize) -> Anchor {
    Anchor::Datagram((index as u64).saturating_add(1))
}

/// Begins the group of a piece and its stream or datagram in this row, unless the piece before it is
/// of the same.
fn begin_stream(
    alloc: Global,
    page: &mut ConnectionPage,
    before: Option<Part>,
    view: &View<'_>,
    row: Row,
) -> Result<(), AllocError>
    ensures { IfOk result (λ _. KeepsEntries page.old.page page.new.page) }
{
    let is_new_group = is_new(before.map(|part| part.group), view.part.group);
    let is_new_stream = is_new_group || !is_of_stream(before, view.part);
    begin_group(alloc, page, is_new_group, view.part.group)?;
    begin_at(page, is_new_stream, place_of_view(view), row);
    Ok(())
}

/// Begins a group, if it is new.
fn begin_group(
    alloc: Global,
    page: &mut ConnectionPage,
    is_new_group: bool,
    group: Group,
) -> Result<(), AllocError>
    ensures { IfOk result (λ _. KeepsEntries page.old.page page.new.page) }
{
    if !is_new_group {
        return Ok(());
    }
    let heading = group_heading(alloc, group)?;
    page.group(heading.as_str());
    Ok(())
}

/// Begins a stream or a datagram in this row, if it is new.
fn begin_at(page: &mut ConnectionPage, is_new_stream: bool, place: Anchor, row: Row)
    ensures { KeepsEntries page.old.page page.new.page }
{
    if is_new_stream {
        page.stream(place, row);
    }
}

/// Returns the row of a stream that is for this, or of a datagram.
fn row_of(purpose: Option<Purpose>) -> Row {
    match purpose {
        Some(Purpose::Control) => Row::Control,
        Some(Purpose::Encoder) => Row::Encoder,
        Some(Purpose::Decoder) => Row::Decoder,
        _ => Row::Own,
    }
}

/// Returns the place of the page where a piece is shown.
fn place_of_view(view: &View<'_>) -> Anchor {
    match view.piece.entry.channel {
        Channel::Stream(id) => Anchor::Stream(id),
        Channel::Datagram => datagram_at(view.part.index),
    }
}
