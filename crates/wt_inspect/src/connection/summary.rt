//! What each session of a connection had, and what each end sent on its stream.

ghost use Rattle.std.specs.List.{list_any};
ghost use Rattle.std.specs.Option.{option_or};
ghost use Rattle.std.specs.Prelude.{◌≡◌, ◌≤◌, List, IfOk, if◌then◌else◌, option_map};
ghost use Rattle.wt_inspect.specs.SessionsShown.{AreNamed, AreOnce, AreSummaries, Says, SumUp, SumsUp};
ghost use Rattle.wt_inspect.specs.SessionsShown.{Tells, TellsBy, close_among, close_in, close_of};
ghost use Rattle.wt_inspect.specs.SessionsShown.{count_of, datagram_names, ids_by, insertions_of};
ghost use Rattle.wt_inspect.specs.SessionsShown.{is_request, is_sent_on, message_by, message_input};
ghost use Rattle.wt_inspect.specs.SessionsShown.{message_on, piece_on, section_in, section_of, stream_names};
ghost use Rattle.wt_inspect.specs.SessionsShown.{unless_interim};
ghost use Rattle.wt_inspect_connection.specs.Lists.{is_same_sender};
ghost use Rattle.wt_inspection.specs.Items.{HasGiven, IsDone, input_of, input_with};
ghost use Rattle.wt_inspection.specs.Results.{Item as ItemValue};
ghost use Rattle.wt_inspection.specs.SessionSections.{is_interim_status, starts_with_one};

use super::Connection;
use std::alloc::{AllocError, Global};
use wt_inspect_connection::list::{Channel, Sender};
use wt_inspect_connection::piece::{Piece, purpose_in, session_of};
use wt_inspect_connection::purpose::Purpose;
use wt_inspection::item::{CapsuleItem, CloseReason, FieldSection, Line, Parts};
use wt_inspection::{Content, End, Insertions, Inspecting, Item, Recorded};

/// How a session went.
#[derive(Drop)]
pub(super) struct Summary {
    /// Its ID.
    pub(super) id: u64,
    /// What the client sent on its stream, if that was recorded.
    pub(super) client: Option<Told>,
    /// What the server sent on its stream, if that was recorded.
    pub(super) server: Option<Told>,
    /// The number of its streams.
    pub(super) streams: usize,
    /// The number of its datagrams.
    pub(super) datagrams: usize,
}

/// What an end sent on the stream of a session.
#[derive(Drop)]
pub(super) struct Told {
    /// What its items say.
    pub(super) said: Said,
    /// How its bytes end.
    pub(super) end: End,
}

/// What items say of a session.
#[derive(Drop)]
pub(super) struct Said {
    /// The first header section that is not of an interim response.
    pub(super) head: Option<FieldSection>,
    /// The first close.
    pub(super) close: Option<CloseReason>,
}

/// The IDs of the sessions that streams and datagrams name.
#[derive(Drop)]
struct Named {
    /// One for each stream that names a session.
    streams: Vec<u64>,
    /// One for each datagram that names a session.
    datagrams: Vec<u64>,
}

impl Connection<'_> {
    /// Returns how each session went, by its ID.
    pub(super) fn summaries(&self) -> Result<Vec<Summary>, AllocError>
        ensures { IfOk result (λ summaries. AreSummaries self.now summaries.items) }
    {
        let ids = once_each(self.alloc, self.sessions)?;
        let named = named_in(self.alloc, self.pieces)?;
        self.summaries_of(ids.as_slice(), &named)
    }

    /// Returns how these sessions went.
    fn summaries_of(&self, ids: &[u64], named: &Named) -> Result<Vec<Summary>, AllocError>
        ensures { IfOk result (λ summaries. AreNamed self.now.pieces.now named.now
            → SumUp self.now ids.now summaries.items) }
    {
        let mut summaries = Vec::new(self.alloc);
        for id in ids {
            let summary = self.summary_of(*id, named)?;
            summaries.push(summary)?;
        }
        Ok(summaries)
    }

    /// Returns how a session went.
    fn summary_of(&self, id: u64, named: &Named) -> Result<Summary, AllocError>
        ensures { IfOk result (λ summary. AreNamed self.now.pieces.now named.now
            → SumsUp self.now id summary) }
    {
        Ok(Summary {
            id,
            client: self.told_by(Sender::Client, id)?,
            server: self.told_by(Sender::Server, id)?,
            streams: count_of(named.streams.as_slice(), id),
            datagrams: count_of(named.datagrams.as_slice(), id),
        })
    }

    /// Returns what an end sent on the stream of a session, if that was recorded.
    fn told_by(&self, sender: Sender, id: u64) -> Result<Option<Told>, AllocError>
        ensures { IfOk result (λ told. TellsBy self.now sender id told) }
    {
        match message_on(self.pieces, sender, id) {
            Some(piece) => Ok(Some(self.told_in(sender, piece)?)),
            None => Ok(None),
        }
    }

    /// Returns what an end sent on the stream of a session, which is this piece.
    fn told_in(&self, sender: Sender, piece: &Piece<'_>) -> Result<Told, AllocError>
        ensures { IfOk result (λ told. Tells (message_input self.now sender piece.now) told) }
    {
        let bytes = piece.bytes.as_slice();
        let is_open = self.arguments.is_open;
        let sent = self.insertions_of(sender);
        read_told(self.alloc, message_by(sender), bytes, is_open, sent)
    }

    /// Returns the insertions into the dynamic table of an end, if they are known.
    fn insertions_of(&self, sender: Sender) -> Option<&Insertions<'_>>
        ensures { option_map (λ sent. sent.now) result ≡ insertions_of self.now sender }
    {
        match sender {
            Sender::Client => self.client.insertions(),
            Sender::Server => self.server.insertions(),
        }
    }
}

/// Returns these IDs in order, each once.
fn once_each(alloc: Global, sessions: &[u64]) -> Result<Vec<u64>, AllocError>
    ensures { IfOk result (λ ids. AreOnce sessions.now ids.items) }
{
    let mut ids = Vec::new(alloc);
    ids.extend_from_slice(sessions)?;
    ids.sort_unstable();
    ids.dedup();
    Ok(ids)
}

// ---- what an end sent

/// Returns what an end sent on the stream of a session, if that was recorded and the stream is a
/// request's.
fn message_on<'p>(pieces: &'p [Piece<'p>], sender: Sender, id: u64) -> Option<&'p Piece<'p>>
    ensures { option_map (λ piece. piece.now) result ≡ message_on pieces.now sender id }
{
    if is_request(purpose_in(pieces, id)) {
        piece_on(pieces, sender, id)
    } else {
        None
    }
}

/// Returns whether a stream is for a request.
fn is_request(purpose: Purpose) -> bool
    ensures { result ≡ is_request purpose }
{
    match purpose {
        Purpose::Request => true,
        _ => false,
    }
}

/// Returns what an end sent on a stream, if that was recorded.
fn piece_on<'p>(pieces: &'p [Piece<'p>], sender: Sender, id: u64) -> Option<&'p Piece<'p>>
    ensures { option_map (λ piece. piece.now) result ≡ piece_on sender id pieces.now }
{
    for piece in pieces {
        if is_sent_on(sender, id, piece) {
            return Some(piece);
        }
    }
    None
}

/// Returns whether a piece is what an end sent on a stream.
fn is_sent_on(sender: Sender, id: u64, piece: &Piece<'_>) -> bool
    ensures { result ≡ is_sent_on sender id piece.now }
{
    match piece.entry.channel {
        Channel::Stream(other) => other == id && is_same(piece.entry.sender, sender),
        Channel::Datagram => false,
    }
}

/// Returns whether both are the same end.
fn is_same(one: Sender, other: Sender) -> bool
    ensures { result ≡ is_same_sender one other }
{
    match (one, other) {
        (Sender::Client, Sender::Client) | (Sender::Server, Sender::Server) => true,
        _ => false,
    }
}

/// Returns what an end sent on the stream of a session: a request, or the response to it.
fn message_by(sender: Sender) -> Recorded
    ensures { result ≡ message_by sender }
{
    match sender {
        Sender::Client => Recorded::Bi,
        Sender::Server => Recorded::SessionResponse,
    }
}

/// Reads what an end sent on the stream of a session.
fn read_told(
    alloc: Global,
    kind: Recorded,
    bytes: &[u8],
    is_open: bool,
    sent: Option<&Insertions<'_>>,
) -> Result<Told, AllocError>
    ensures { IfOk result (λ told. Tells (input_with kind «is_open» bytes.now
        (option_map (λ i. i.now) sent.entry)) told) }
{
    let mut items = Inspecting::new(alloc, kind, bytes, is_open, sent);
    let mut said = Said {
        head: None,
        close: None,
    };
    'items: loop {
        let next = items.next()?;
        match next {
            Some(item) => {
                drop(items.take_warnings());
                said.take(item);
            }
            None => return told_at_end(items, said),
        }
    }
}

/// Returns what items say that are all of an end, and how they end.
fn told_at_end(items: Inspecting<'_>, said: Said) -> Result<Told, AllocError>
    requires { IsDone items }
    ensures { IfOk result (λ told. (given : List ItemValue) → HasGiven given items.entry
        → Says given said → Tells (input_of items.entry) told) }
{
    let (end, _) = items.finish()?;
    Ok(Told { said, end })
}

impl Said {
    /// Takes what an item says, unless an item before it said such a thing.
    fn take(&mut self, item: Item)
        ensures head { self.new.head ≡ option_or self.old.head (section_of item.content) }
        ensures close { self.new.close ≡ option_or self.old.close (close_of item.content) }
    {
        match item.content {
            Content::Frame(frame) => self.take_parts(frame.parts),
            _ => {}
        }
    }

    /// Takes what the contents of a frame say.
    fn take_parts(&mut self, parts: Parts)
        ensures head { self.new.head ≡ option_or self.old.head (section_in parts) }
        ensures close { self.new.close ≡ option_or self.old.close (close_in parts) }
    {
        match parts {
            Parts::Fields(section) => self.take_section(section),
            Parts::Capsules(capsules) => self.take_close(capsules),
            _ => {}
        }
    }

    /// Takes a header section, unless it is that of an interim response.
    fn take_section(&mut self, section: FieldSection)
        ensures head { self.new.head ≡ option_or self.old.head (unless_interim section) }
        ensures close { self.new.close ≡ self.old.close }
    {
        if self.head.is_none() && !is_interim(&section) {
            self.head = Some(section);
        }
    }

    /// Takes the first close of these capsules.
    fn take_close(&mut self, capsules: Vec<CapsuleItem>)
        ensures head { self.new.head ≡ self.old.head }
        ensures close { self.new.close ≡ option_or self.old.close (close_among capsules.items) }
    {
        if self.close.is_none() {
            self.close = close_among(capsules);
        }
    }
}

/// Returns whether a header section is that of an interim response (RFC 9114, section 4.1).
fn is_interim(section: &FieldSection) -> bool
    ensures { result ≡ list_any is_interim_status section.now.lines.items }
{
    section.lines.iter().any(|line| is_interim_status(line))
}

/// Returns whether a line is the status of an interim response: its first digit is 1 (RFC 9110,
/// section 15.2).
fn is_interim_status(line: &Line) -> bool
    ensures { result ≡ is_interim_status line.now }
{
    line.name.as_slice() == b":status".as_slice() && starts_with_one(line.value.as_slice())
}

/// Returns whether the first byte is the digit 1.
fn starts_with_one(value: &[u8]) -> bool
    ensures { result ≡ starts_with_one value.now }
{
    match value.first() {
        Some(&first) => first == b'1',
        None => false,
    }
}

/// Returns the close of the first of these capsules that has one.
fn close_among(capsules: Vec<CapsuleItem>) -> Option<CloseReason>
    ensures { result ≡ close_among capsules.items }
{
    for capsule in capsules {
        if let Some(close) = capsule.close {
            return Some(close);
        }
    }
    None
}

// ---- streams and datagrams

/// Returns the IDs of the sessions that the streams and the datagrams of a connection name.
fn named_in(alloc: Global, pieces: &[Piece<'_>]) -> Result<Named, AllocError>
    ensures { IfOk result (λ named. AreNamed pieces.now named) }
{
    let streams = ids_of_streams(alloc, pieces)?;
    let datagrams = ids_of_datagrams(alloc, pieces)?;
    Ok(Named { streams, datagrams })
}

/// Returns the IDs of the sessions that streams name, once for each stream.
fn ids_of_streams(alloc: Global, pieces: &[Piece<'_>]) -> Result<Vec<u64>, AllocError>
    ensures { IfOk result (λ ids. ids.items ≡ ids_by stream_names pieces.now pieces.now) }
{
    let mut ids = Vec::new(alloc);
    for piece in pieces {
        match stream_names(pieces, piece) {
            Some(id) => ids.push(id)?,
            None => {}
        }
    }
    Ok(ids)
}

/// Returns the IDs of the sessions that datagrams name, once for each datagram.
fn ids_of_datagrams(alloc: Global, pieces: &[Piece<'_>]) -> Result<Vec<u64>, AllocError>
    ensures { IfOk result (λ ids. ids.items ≡ ids_by datagram_names pieces.now pieces.now) }
{
    let mut ids = Vec::new(alloc);
    for piece in pieces {
        match datagram_names(pieces, piece) {
            Some(id) => ids.push(id)?,
            None => {}
        }
    }
    Ok(ids)
}

/// Returns the ID of the session that a stream names, if the piece is what the end sent that opened
/// the stream.
fn stream_names(pieces: &[Piece<'_>], piece: &Piece<'_>) -> Option<u64>
    ensures { result ≡ stream_names pieces.now piece.now }
{
    match piece.entry.channel {
        Channel::Stream(id) if piece.entry.sender.has_opened(id) => session_of(pieces, piece),
        _ => None,
    }
}

/// Returns the ID of the session that a datagram names, if the piece is one.
fn datagram_names(pieces: &[Piece<'_>], piece: &Piece<'_>) -> Option<u64>
    ensures { result ≡ datagram_names pieces.now piece.now }
{
    match piece.entry.channel {
        Channel::Stream(_) => None,
        Channel::Datagram => session_of(pieces, piece),
    }
}

/// Returns how often an ID is there.
fn count_of(ids: &[u64], id: u64) -> usize
    ensures { result ≡ count_of id ids.now }
{
    let mut count = 0;
    for other in ids {
        count += one_if(*other == id);
    }
    count
}

/// Returns 1 if this holds, and otherwise 0.
fn one_if(holds: bool) -> usize
    ensures one { result ≡ (if «holds» then 1 else 0) }
    ensures most { result ≤ 1 }
{
    if holds { 1 } else { 0 }
}
