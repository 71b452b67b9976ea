//! A connection as one page of HTML.
ghost use Rattle.std.specs.Prelude.{◌≡◌, ℕ, List, [], ◌∷◌, IfOk};
ghost use Rattle.wt_inspection_views.specs.Html.{AddsEntries, Entry, HasEntries, IsPageOf};
ghost use Rattle.wt_inspection_views.specs.Html.{KeepsEntries, entry_of, sent_entry, summary};
ghost use Rattle.wt_inspection_views.specs.Html.{verdict_entry};

use super::page::{Fragment, Markup, Page};
use super::{MAX_ITEMS, MAX_SHOWN_LEN, add_bytes, add_end, add_items, add_others};
use std::alloc::{AllocError, Global};
use wt_inspection_model::item::{Inspection, Item};

/// The title of a page, and how much the connection has.
#[derive(Clone, Copy)]
pub struct Overview<'a> {
    /// The title.
    pub title: &'a str,
    /// The number of streams.
    pub streams: usize,
    /// The number of datagrams.
    pub datagrams: usize,
    /// The number of bytes.
    pub bytes: usize,
    /// The number of items.
    pub items: usize,
}

/// A place of the page.
#[derive(Clone, Copy, Debug, PartialEq, Eq)]
pub enum Anchor {
    /// The stream with this ID.
    Stream(u64),
    /// The datagram with this number.
    Datagram(u64),
}

/// The row of a page in which a stream or a datagram is shown.
#[derive(Clone, Copy, Debug, PartialEq, Eq)]
pub enum Row {
    /// That of the control streams of both ends.
    Control,
    /// That of the QPACK encoder streams of both ends.
    Encoder,
    /// That of the QPACK decoder streams of both ends.
    Decoder,
    /// A row of its own.
    Own,
}

/// What an end sent on a stream, or in a datagram.
#[derive(Clone, Copy)]
pub struct Sent<'a> {
    /// Whether the server sent it, and not the client.
    pub is_server: bool,
    /// The heading.
    pub heading: &'a str,
    /// The fault of the instructions of an encoder stream, if it has one.
    pub fault: Option<&'a str>,
    /// What the bytes contain.
    pub inspection: &'a Inspection,
    /// The bytes.
    pub bytes: &'a [u8],
}

/// What the page has begun and not ended.
#[derive(Clone, Copy)]
enum Begun {
    /// The verdicts, of which there are none so far.
    NoVerdict,
    /// The verdicts, or the sessions.
    Verdicts,
    /// A group.
    Group,
    /// A group, and a stream or a datagram in it.
    Stream,
}

/// A page of a connection, to which its verdicts are added first, then how its sessions went, and then
/// its groups, streams and what each end sent on them. It needs no other file.
///
/// At the top is the title, with the numbers of streams, datagrams, bytes and items. What the client
/// sent on a stream is on the left, and what the server sent on the right, each as on the page of one
/// stream, but that the bytes come last and are folded. Each group has headings for both sides. The
/// control streams of both ends are beside each other, and so are their encoder streams and their
/// decoder streams. Items after the first 10000 of the page are
/// counted. If the connection has more than 65536 bytes, payloads are shown by their lengths. What a
/// peer sent stands in escaped text alone.
///
/// A failed allocation is reported by [`finish`](Self::finish).
#[derive(Drop)]
pub struct ConnectionPage {
    alloc: Global,
    page: Page,
    begun: Begun,
    /// Whether payloads are shown by their lengths.
    is_long: bool,
    /// The number of items that are shown.
    items: usize,
}

impl ConnectionPage {
    /// Creates a page without verdicts, with this title.
    pub fn new(alloc: Global, overview: &Overview<'_>) -> Self
        ensures { HasEntries [] result.page }
    {
        let mut page = Page::new(alloc);
        page.fragment(overview_fragment(alloc, overview));
        ConnectionPage {
            alloc,
            page,
            begun: Begun::NoVerdict,
            is_long: overview.bytes > MAX_SHOWN_LEN,
            items: 0,
        }
    }

    /// Adds a verdict on what was sent at this place, which is the link to it.
    pub fn verdict(&mut self, is_fault: bool, place: Anchor, words: &str)
        ensures { AddsEntries (verdict_entry «is_fault» ∷ []) self.old.page self.new.page }
    {
        self.begun = Begun::Verdicts;
        self.page.markup(begin_verdict(is_fault));
        self.page
            .fragment(verdict_fragment(self.alloc, place, words));
    }

    /// Ends the verdicts, and begins how the sessions went.
    pub fn sessions(&mut self)
        ensures { KeepsEntries self.old.page self.new.page }
    {
        let mut fragment = Fragment::new(self.alloc);
        end_group(&mut fragment, self.begun);
        fragment.markup(Markup::Sessions);
        self.page.fragment(fragment);
        self.begun = Begun::Verdicts;
    }

    /// Adds how a session went, which is the link to this place.
    pub fn session(&mut self, place: Anchor, words: &str)
        ensures { AddsEntries (summary ∷ []) self.old.page self.new.page }
    {
        self.page.markup(Markup::SessionAt);
        self.page
            .fragment(verdict_fragment(self.alloc, place, words));
    }

    /// Begins a group with this heading.
    pub fn group(&mut self, heading: &str)
        ensures { KeepsEntries self.old.page self.new.page }
    {
        let mut fragment = Fragment::new(self.alloc);
        end_group(&mut fragment, self.begun);
        fragment.markup(Markup::Group);
        fragment.words(heading);
        fragment.markup(Markup::GroupNamed);
        self.page.fragment(fragment);
        self.begun = Begun::Group;
    }

    /// Begins a stream or a datagram of the group, in this row.
    pub fn stream(&mut self, place: Anchor, row: Row)
        ensures { KeepsEntries self.old.page self.new.page }
    {
        let mut fragment = Fragment::new(self.alloc);
        end_stream(&mut fragment, self.begun);
        fragment.markup(begin_stream(row));
        add_name(&mut fragment, place);
        self.page.fragment(fragment);
        self.begun = Begun::Stream;
    }

    /// Adds what an end sent on the stream, or in the datagram.
    pub fn sent(&mut self, sent: &Sent<'_>)
        ensures { AddsEntries (sent_entry sent.now.is_server ∷ []) self.old.page self.new.page }
    {
        let left = MAX_ITEMS.saturating_sub(self.items);
        self.page.markup(begin_sent(sent.is_server));
        self.page.fragment(sent_fragment(self.alloc, sent, self.items, left, self.is_long));
        let shown = sent.inspection.items.len().min(left);
        self.items = self.items.saturating_add(shown);
    }

    /// Returns the page.
    ///
    /// Returns [`AllocError`] if an allocation failed, now or before.
    pub fn finish(self) -> Result<Vec<u8>, AllocError>
        ensures { IfOk result (λ page. (entries : List Entry) → HasEntries entries self.page
            → IsPageOf entries page.items) }
    {
        let mut fragment = Fragment::new(self.alloc);
        end_group(&mut fragment, self.begun);
        let mut page = self.page;
        page.fragment(fragment);
        page.into_bytes()
    }
}

/// Returns what begins a verdict.
fn begin_verdict(is_fault: bool) -> Markup
    ensures { entry_of result ≡ verdict_entry «is_fault» ∷ [] }
{
    if is_fault {
        Markup::FaultAt
    } else {
        Markup::RemarkAt
    }
}

/// Returns what begins a stream or a datagram.
fn begin_stream(row: Row) -> Markup
    ensures { entry_of result ≡ [] }
{
    match row {
        Row::Control => Markup::ControlAt,
        Row::Encoder => Markup::EncoderAt,
        Row::Decoder => Markup::DecoderAt,
        Row::Own => Markup::StreamAt,
    }
}

/// Returns what begins what an end sent.
fn begin_sent(is_server: bool) -> Markup
    ensures { entry_of result ≡ sent_entry «is_server» ∷ [] }
{
    if is_server {
        Markup::Server
    } else {
        Markup::Client
    }
}

/// Returns what comes after the head of a page, up to its first verdict.
fn overview_fragment(alloc: Global, overview: &Overview<'_>) -> Fragment {
    let mut fragment = Fragment::new(alloc);
    add_overview(&mut fragment, overview);
    fragment.markup(Markup::Main);
    fragment.markup(Markup::Verdicts);
    fragment
}

/// Returns what comes after the beginning of a verdict, or of how a session went.
fn verdict_fragment(alloc: Global, place: Anchor, words: &str) -> Fragment {
    let mut fragment = Fragment::new(alloc);
    add_name(&mut fragment, place);
    fragment.words(words);
    fragment.markup(Markup::LinkEnd);
    fragment
}

/// Returns what comes after the beginning of what an end sent, with at most this number of items.
fn sent_fragment(
    alloc: Global,
    sent: &Sent<'_>,
    first: usize,
    most: usize,
    is_long: bool,
) -> Fragment {
    let mut fragment = Fragment::new(alloc);
    if add_sent(&mut fragment, sent, first, most, is_long).is_err() {
        fragment.mark_failed();
    }
    fragment
}

/// Adds the title, and how much the connection has.
fn add_overview(fragment: &mut Fragment, overview: &Overview<'_>) {
    fragment.words(overview.title);
    fragment.words(": ");
    add_count(fragment, overview.streams, "stream");
    fragment.words(", ");
    if overview.datagrams > 0 {
        add_count(fragment, overview.datagrams, "datagram");
        fragment.words(", ");
    }
    add_count(fragment, overview.bytes, "byte");
    fragment.words(", ");
    add_count(fragment, overview.items, "item");
}

/// Adds a number, and the word for what it counts.
fn add_count(fragment: &mut Fragment, count: usize, word: &str) {
    let alloc = fragment.alloc;
    let end = if count == 1 { "" } else { "s" };
    fragment.text(format!(in alloc; "{count} {word}{end}"));
}

/// Adds the name of a place in an attribute, and ends its tag.
fn add_name(fragment: &mut Fragment, place: Anchor) {
    let alloc = fragment.alloc;
    match place {
        Anchor::Stream(id) => fragment.text(format!(in alloc; "s{id}")),
        Anchor::Datagram(number) => fragment.text(format!(in alloc; "d{number}")),
    }
    fragment.markup(Markup::TagEnd);
}

/// Ends the verdicts, the sessions or the group.
fn end_group(fragment: &mut Fragment, begun: Begun) {
    match begun {
        Begun::NoVerdict => {
            fragment.markup(Markup::Line);
            fragment.words("no error");
            fragment.markup(Markup::SpanEnd);
            fragment.markup(Markup::VerdictsEnd);
        }
        Begun::Verdicts => fragment.markup(Markup::VerdictsEnd),
        Begun::Group | Begun::Stream => {
            end_stream(fragment, begun);
            fragment.markup(Markup::SectionEnd);
        }
    }
}

/// Ends the stream or the datagram, if one was begun.
fn end_stream(fragment: &mut Fragment, begun: Begun) {
    match begun {
        Begun::Stream => fragment.markup(Markup::SectionEnd),
        _ => {}
    }
}

/// Adds what an end sent: the heading, the fault, at most this number of its items, which are marked
/// by numbers from `first` on, the end, and the bytes of these items.
fn add_sent(
    fragment: &mut Fragment,
    sent: &Sent<'_>,
    first: usize,
    most: usize,
    is_long: bool,
) -> Result<(), AllocError> {
    let inspection = sent.inspection;
    let items = inspection.items.as_slice();
    let (shown, others) = items.split_at(items.len().min(most));
    fragment.words(sent.heading);
    fragment.markup(Markup::Named);
    if let Some(fault) = sent.fault {
        fragment.markup(Markup::Fault);
        fragment.words(fault);
        fragment.markup(Markup::PreEnd);
    }
    fragment.markup(Markup::Items);
    add_items(
        fragment,
        first,
        shown,
        inspection.warnings.as_slice(),
        sent.bytes,
    )?;
    add_others(fragment, others.len(), "items");
    add_end(fragment, inspection.end, sent.bytes.len());
    fragment.markup(Markup::ItemsEnd);
    add_folded(fragment, first, shown, sent.bytes, is_long)?;
    fragment.markup(Markup::SentEnd);
    Ok(())
}

/// Adds the rows of the bytes of items, folded, if there are some.
fn add_folded(
    fragment: &mut Fragment,
    first: usize,
    items: &[Item],
    bytes: &[u8],
    is_long: bool,
) -> Result<(), AllocError> {
    if items.is_empty() {
        return Ok(());
    }
    fragment.markup(Markup::Folded);
    add_count(fragment, bytes.len(), "byte");
    fragment.markup(Markup::FoldedBytes);
    add_bytes(fragment, first, items, bytes, is_long)?;
    fragment.markup(Markup::FoldedEnd);
    Ok(())
}
