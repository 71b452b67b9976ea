//! The dynamic tables of a connection.

ghost use Rattle.std.specs.Prelude.{◌≡◌, ◌<◌, ◌^◌, List, IfOk, option_map};
ghost use Rattle.wt_inspect.specs.Connections.{Allows, AllowsAfter, AllowsBy, IsBroken, IsTable};
ghost use Rattle.wt_inspect.specs.Connections.{IsTableIn};
ghost use Rattle.wt_inspect.specs.Connections.{capacity_among, capacity_of_content, other_end};
ghost use Rattle.wt_inspection.specs.Items.{HasGiven, input_of};
ghost use Rattle.wt_inspection.specs.Results.{Item as ItemValue};

use crate::arguments::capacity_of;
use std::alloc::{AllocError, Global};
use wt_inspect_connection::list::Sender;
use wt_inspect_connection::piece::{Piece, stream_for};
use wt_inspect_connection::purpose::Purpose;
use wt_inspection::item::{Parts, SettingLine};
use wt_inspection::{Content, Insertions, Inspecting, Item, Recorded, instructions_in};
use wtp_dynamic::error::EncoderStreamError;

/// The identifier of SETTINGS_QPACK_MAX_TABLE_CAPACITY (RFC 9204, section 5).
const MAX_TABLE_CAPACITY: u64 = 0x01;

/// What is known of the dynamic table for the field sections that an end sends.
#[derive(Drop)]
pub(super) enum Table<'a> {
    /// Its encoder stream was not recorded.
    Unknown,
    /// The insertions of its encoder stream.
    Known(Insertions<'a>),
    /// Its encoder stream has this fault.
    Broken(EncoderStreamError),
}

impl<'a> Table<'a> {
    ghost use Rattle.wt_inspect.specs.Connections.{fault_of, sent_of};

    /// Returns the insertions, if they are known.
    pub(super) fn insertions(&self) -> Option<&Insertions<'a>>
        ensures { option_map (λ sent. sent.now) result ≡ sent_of self.now }
    {
        match self {
            Table::Known(sent) => Some(sent),
            Table::Unknown | Table::Broken(_) => None,
        }
    }

    /// Returns the fault of the encoder stream, if it has one.
    pub(super) fn fault(&self) -> Option<EncoderStreamError>
        ensures { result ≡ fault_of self.now }
    {
        match self {
            Table::Broken(fault) => Some(*fault),
            Table::Unknown | Table::Known(_) => None,
        }
    }
}

/// Reads the encoder stream of an end. The other end's settings say which capacity it may have.
pub(super) fn read_table<'p>(
    alloc: Global,
    pieces: &'p [Piece<'_>],
    sender: Sender,
) -> Result<Table<'p>, AllocError>
    ensures { IfOk result (λ table. IsTable pieces.entry.now sender table) }
{
    match stream_for(pieces, sender, Purpose::Encoder) {
        Some(bytes) => {
            let capacity = capacity_for(alloc, pieces, other_end(sender))?;
            table_in(alloc, capacity, bytes)
        }
        None => Ok(Table::Unknown),
    }
}

/// Reads an encoder stream.
fn table_in(alloc: Global, capacity: u64, bytes: &[u8]) -> Result<Table<'_>, AllocError>
    requires { capacity < 2 ^ 60 }
    ensures { IfOk result (λ table. IsTableIn capacity bytes.entry.now table) }
{
    match Insertions::read(alloc, capacity, instructions_in(bytes)) {
        Ok(sent) => Ok(Table::Known(sent)),
        Err(fault) => broken(fault),
    }
}

/// Returns what is known of a table whose encoder stream has this fault.
///
/// Returns [`AllocError`] if that is a failed allocation.
fn broken<'a>(fault: EncoderStreamError) -> Result<Table<'a>, AllocError>
    ensures { IfOk result (λ table. IsBroken fault table) }
{
    match fault {
        EncoderStreamError::Memory => Err(AllocError),
        _ => Ok(Table::Broken(fault)),
    }
}

/// Returns the other end.
pub(super) fn other_end(sender: Sender) -> Sender
    ensures { result ≡ other_end sender }
{
    match sender {
        Sender::Client => Sender::Server,
        Sender::Server => Sender::Client,
    }
}

/// Returns the largest capacity of a table that an end allows by its settings: 0 if they do not say
/// so, and 4096 if they were not recorded.
fn capacity_for(alloc: Global, pieces: &[Piece<'_>], sender: Sender) -> Result<u64, AllocError>
    ensures below { IfOk result (λ capacity. capacity < 2 ^ 60) }
    ensures allows { IfOk result (λ capacity. Allows pieces.now sender capacity) }
{
    match stream_for(pieces, sender, Purpose::Control) {
        Some(bytes) => Ok(capacity_of(capacity_in(alloc, bytes)?)),
        None => Ok(capacity_of(None)),
    }
}

/// Returns the capacity that a control stream allows, or `None` if it does not begin with settings.
fn capacity_in(alloc: Global, bytes: &[u8]) -> Result<Option<u64>, AllocError>
    ensures { IfOk result (λ allowed. AllowsBy bytes.now allowed) }
{
    let mut items = Inspecting::new(alloc, Recorded::Uni, bytes, true, None);
    // The stream type comes before the first frame.
    let head = items.next()?;
    match head {
        Some(head) => {
            drop(head);
            capacity_after(&mut items)
        }
        None => Ok(None),
    }
}

/// Returns the capacity that the next item allows, or `None` if it has no settings.
fn capacity_after(items: &mut Inspecting<'_>) -> Result<Option<u64>, AllocError>
    ensures { IfOk result (λ allowed. (given : List ItemValue) → HasGiven given items.old
        → AllowsAfter (input_of items.old) given allowed) }
{
    let next = items.next()?;
    match next {
        Some(item) => Ok(capacity_of_item(item)),
        None => Ok(None),
    }
}

/// Returns the capacity that an item allows, if it has settings.
fn capacity_of_item(item: Item) -> Option<u64>
    ensures { result ≡ capacity_of_content item.content }
{
    capacity_of_content(&item.content)
}

/// Returns the capacity that a frame allows, if it has settings.
fn capacity_of_content(content: &Content) -> Option<u64>
    ensures { result ≡ capacity_of_content content.now }
{
    match content {
        Content::Frame(frame) => match &frame.parts {
            Parts::Settings(settings) => Some(capacity_among(settings.as_slice())),
            _ => None,
        },
        _ => None,
    }
}

/// Returns the capacity that settings allow, which is 0 if they do not say so (RFC 9204, section 5).
fn capacity_among(settings: &[SettingLine]) -> u64
    ensures { result ≡ capacity_among settings.now }
{
    for setting in settings {
        if setting.id == MAX_TABLE_CAPACITY {
            return setting.value;
        }
    }
    0
}
