//! The items of a recording, one after the other.
ghost use Rattle.std.specs.Prelude.{◌≡◌, ◌+◌, ◌≤◌, [], List, IfOk, drop, length, option_map, None};
ghost use Rattle.wt_inspection.specs.Recording.{IsRecording};
ghost use Rattle.wt_inspection.specs.Resolved.{ItemsWith};
ghost use Rattle.wt_inspection.specs.Tiles.{Tiles};

use crate::insertions::Insertions;
use crate::reading::{Reading, Recorded, Step, Then, start_of};
use crate::recording::{end_of, next_step};
use std::alloc::{AllocError, Global};
use std::mem;
use wt_inspection_model::item::{End, Inspection, Item, Warning};

/// Reads the items of a recording one after the other: those that [`inspect_with`] returns, of
/// which it keeps none.
///
/// Call [`next`](Inspecting::next) until there is no item left, and then
/// [`finish`](Inspecting::finish).
#[derive(Drop)]
pub struct Inspecting<'a> {
    kind: Recorded,
    bytes: &'a [u8],
    is_open: bool,
    sent: Option<&'a Insertions<'a>>,
    reading: Reading,
    state: Then,
    /// The place of the next item.
    at: usize,
    ghost within: { at ≤ length bytes.now },
}

impl<'a> Inspecting<'a> {
    ghost use Rattle.wt_inspection.specs.Items.{Gives, HasGiven, IsDone, IsInspection, Keeps};
    ghost use Rattle.wt_inspection.specs.Items.{input_of, input_with};
    ghost use Rattle.wt_inspection_model.specs.declared.item.Item.{Item as ItemValue};

    /// Begins to read these bytes. If `open`, more bytes may follow them; otherwise the stream ends
    /// after them. `sent` is the encoder stream of the end that sent them, if it is known.
    pub fn new(
        alloc: Global,
        kind: Recorded,
        bytes: &'a [u8],
        open: bool,
        sent: Option<&'a Insertions<'a>>,
    ) -> Self
        ensures input { input_of result
            ≡ input_with kind «open» bytes.now (option_map (λ i. i.now) sent.entry) }
        ensures none { HasGiven [] result }
    {
        Inspecting {
            kind,
            bytes,
            is_open: open,
            sent,
            reading: Reading::new(alloc),
            state: Ok(start_of(kind)),
            at: 0,
        }
    }

    /// Returns the next item, or `None` after the last one.
    ///
    /// Returns [`AllocError`] if allocation fails. Nothing is known of the items after that.
    #[inline(always)]
    pub fn next(&mut self) -> Result<Option<Item>, AllocError>
        ensures input { IfOk result (λ _. input_of self.new ≡ input_of self.old) }
        ensures gives { IfOk result (λ found. Gives found self.old self.new) }
    {
        let rest = self.rest();
        if rest.is_empty() {
            return Ok(None);
        }
        let Step {
            length,
            content,
            after,
        } = next_step(&mut self.reading, self.sent, self.state, self.at, rest)?;
        let item = Item {
            at: self.at,
            length,
            content,
        };
        self.at += length;
        self.state = after;
        Ok(Some(item))
    }

    /// Returns the bytes that no item has yet.
    fn rest(&self) -> &'a [u8]
        ensures bytes { result.now ≡ drop self.now.at self.now.bytes.now }
        ensures size { self.now.at + length result.now ≡ length self.now.bytes.now }
    {
        &self.bytes[self.at..]
    }

    /// Returns the warnings about the items so far, without those that were taken before.
    pub fn take_warnings(&mut self) -> Vec<Warning>
        ensures { Keeps self.old self.new }
    {
        let none = Vec::new(self.reading.alloc);
        mem::replace(&mut self.reading.warnings, none)
    }

    /// Returns how the bytes end, and the warnings that were not taken before, the last of which are
    /// about the end. Requires that there is no item left.
    ///
    /// Returns [`AllocError`] if allocation fails.
    pub fn finish(self) -> Result<(End, Vec<Warning>), AllocError>
        requires { IsDone self }
        ensures { IfOk result (λ found. (items : List ItemValue) → HasGiven items self.entry
            → IsInspection (input_of self.entry) items found.0) }
    {
        let end = end_of(
            &self.reading,
            self.kind,
            self.is_open,
            self.state,
            self.bytes,
        );
        let mut reading = self.reading;
        if !self.is_open && self.state.is_ok() {
            reading.warn_at_end(self.bytes.len())?;
        }
        Ok((end, reading.warnings))
    }

    /// Returns the inspection of which these are all items. Requires that there is no item left.
    fn inspected(self, items: Vec<Item>) -> Result<Inspection, AllocError>
        requires done { IsDone self }
        requires given { HasGiven items.items self }
        ensures { IfOk result
            (λ i. IsInspection (input_of self.entry) i.items.items i.end) }
    {
        let (end, warnings) = self.finish()?;
        Ok(Inspection {
            items,
            warnings,
            end,
        })
    }
}

/// Returns what the bytes contain. If `open`, more bytes may follow them; otherwise the stream ends
/// after them.
///
/// The items tile the bytes: each byte belongs to exactly one item, and the items are in order.
/// Each is what the bytes at its place are after the items before it. The bytes after the item with
/// the first fault, and too few bytes for the head of an item, are one item that is not read. The
/// end is then that fault, or where the bytes are cut: [`End::Cut`], unless `kind` is
/// that of a stream and they are not `open`. A stream may not end within a frame, so that is the fault
/// [`ErrorCode::Frame`] (RFC 9114, section 7.1), nor its DATA frames within a capsule, which is the
/// fault [`ErrorCode::Message`] (RFC 9297, section 3.3).
///
/// DATA frames contain capsules if the first header section, or the first that is not of an interim
/// response, is that of a session: a request whose `:protocol` is one of WebTransport, `connect-udp`
/// or `connect-ip`, or any with a true `capsule-protocol`; or a response with the status 2xx and a
/// true `capsule-protocol`, `sec-webtransport-http3-draft` or `wt-protocol`. A CONNECT whose lines
/// end before `:protocol` counts as the request of a session. With [`Recorded::SessionResponse`] each
/// response that accepts is one. Other DATA frames are not read.
///
/// A field section that needs the dynamic table has lines of which the name, or the name and the
/// value, are unknown: [`inspect_with`] knows them.
///
/// Returns [`AllocError`] if allocation fails.
pub fn inspect(
    alloc: Global,
    kind: Recorded,
    bytes: &[u8],
    open: bool,
) -> Result<Inspection, AllocError>
    ensures tiles { IfOk result (λ i. Tiles 0 i.items.items (length bytes.now)) }
    ensures read { IfOk result (λ i. IsRecording kind «open» bytes.now i.items.items i.end) }
    ensures sections { IfOk result (λ i. ItemsWith None bytes.now i.items.items) }
{
    inspect_with(alloc, kind, bytes, open, None)
}

/// Does the same as [`inspect`], with the encoder stream of the end that sent the bytes.
///
/// A field section is read with the dynamic table as it is when all insertions that the section
/// needs have just been made. Its Required Insert Count is what the encoded number means once all
/// insertions were read, or the one before if these are too few for that (RFC 9204, section
/// 4.5.1.1). So the count is the right one of each section if the encoder stream has at most twice
/// as many insertions as the table can have entries; and of the later sections otherwise.
///
/// Returns [`AllocError`] if allocation fails.
pub fn inspect_with(
    alloc: Global,
    kind: Recorded,
    bytes: &[u8],
    open: bool,
    sent: Option<&Insertions<'_>>,
) -> Result<Inspection, AllocError>
    ensures tiles { IfOk result (λ i. Tiles 0 i.items.items (length bytes.now)) }
    ensures read { IfOk result (λ i. IsRecording kind «open» bytes.now i.items.items i.end) }
    ensures sections { IfOk result
        (λ i. ItemsWith (option_map (λ i. i.now) sent.entry) bytes.now i.items.items) }
{
    let mut inspecting = Inspecting::new(alloc, kind, bytes, open, sent);
    let mut items = Vec::new(alloc);
    'items: loop {
        match inspecting.next()? {
            Some(item) => items.push(item)?,
            None => return inspecting.inspected(items),
        }
    }
}
