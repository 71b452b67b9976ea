//! QPACK's dynamic table in memory of the caller, and what is due on the own decoder stream.
ghost use Rattle.std.specs.Prelude.{ℕ, ◌≡◌, ◌≢◌, ◌⊎◌, ◌≤◌, ◌<◌, ◌^◌, ◌+◌, ◌++◌, [], length, drop, Option, Some, None, IfOk, MatchBool, MatchOption, MatchResult};
ghost use Rattle.wtp_dynamic.specs.Table.{insert_count};
ghost use Rattle.wtp_dynamic_decoder.specs.Decoder.{told};
ghost use Rattle.wtp_dynamic.specs.Stored.{word};
ghost use Rattle.wtp_webtransport.specs.declared.connection.Connection.{Connection};
ghost use Rattle.wtp_webtransport.specs.Events.{told_of};
ghost use Rattle.wtp_webtransport.specs.Tables.{too_many_blocked};
ghost use Rattle.wtp_webtransport.specs.declared.unacknowledged.Unacknowledged.{Unacknowledged};
ghost use Rattle.wt_c.specs.Output.{WritesPrefix, TooShort};
ghost use Rattle.wt_c.specs.Connections.{HasConnection, IsNoConnection, with_connection};
ghost use Rattle.wt_c.specs.ConnectionEvents.{c_event};
ghost use Rattle.wt_c.specs.Tables.{due_bytes, table_bytes, room_for, IsCount, IsTable, IsNoTable, PutsTable, HasTable, IsStoredBy, new_table, acknowledges, increments, cancels, change_of, WritesDue, LacksRoom, Counts};

use crate::connections::WtConnection;
use crate::connections::beside::put;
use crate::connections::events::{WtEvent, event_of};
use crate::output::write_bytes;
use crate::status::{BUFFER_TOO_SMALL, INVALID, MEMORY, OK};
use crate::texts::Rejection;
use std::alloc::{AllocError, Global};
use wtp_core::varint::VarInt;
use wtp_dynamic::stored::{put_word, take_word};
use wtp_dynamic_decoder::decoder::QpackDecoder;
use wtp_webtransport::connection::Connection;
use wtp_webtransport::unacknowledged::{Unacknowledged, due_on, still_due};

/// The largest capacity of a table.
const MAX_CAPACITY: u64 = (1 << 60) - 1;

/// What is written for the own decoder stream.
#[derive(Clone, Copy)]
pub(crate) enum TableCall {
    /// The acknowledgment of the section that was read on this stream.
    Acknowledge(u64),
    /// How many insertions were received.
    Increment,
    /// That this stream is read no further.
    Cancel(u64),
}

impl TableCall {
    // Appends the instruction that is due.
    fn apply(
        self,
        decoder: &mut QpackDecoder,
        due: &mut Option<Unacknowledged>,
        out: &mut Vec<u8>,
    ) -> Result<(), AllocError>
        ensures { IfOk result (λ _. (out.new.items ≡ told out.old.items (change_of self decoder.old due.old).0)
            × (decoder.new ≡ (change_of self decoder.old due.old).1)
            × (due.new ≡ (change_of self decoder.old due.old).2)) }
    {
        match self {
            TableCall::Acknowledge(id) => {
                let count = decoder.insert_count();
                if let Some(required) = due_on(*due, id) {
                    decoder.acknowledge(id, required.min(count), out)?;
                }
                *due = None;
                Ok(())
            }
            TableCall::Increment => decoder.increment(out),
            TableCall::Cancel(id) => {
                decoder.cancel(id, out)?;
                *due = still_due(*due, id);
                Ok(())
            }
        }
    }
}

// Returns the words of what is to be acknowledged.
fn words_of(due: Option<Unacknowledged>) -> (u64, u64)
    ensures words { due_bytes due ≡ word result.0 ++ word result.1 }
    ensures count { IsCount due }
{
    match due {
        None => (0, 0),
        Some(section) => words_of_section(section),
    }
}

// Returns the words of a section that is to be acknowledged.
fn words_of_section(section: Unacknowledged) -> (u64, u64)
    ensures words { due_bytes (Some section) ≡ word result.0 ++ word result.1 }
    ensures count { IsCount (Some section) }
{
    let flag = match section.cancelled {
        None => 1,
        Some(id) => 2 + id.into_inner(),
    };
    (flag, section.required)
}

// Returns what is to be acknowledged, by its words.
#[tactic(auto, using(crate::proofs::TableLemmas::dues))]
fn due_at(flag: u64, number: u64) -> Option<Option<Unacknowledged>>
    ensures { MatchOption result
        ((due : Option Unacknowledged) → IsCount due → ¬ (due_bytes due ≡ word flag ++ word number))
        (λ due. (due_bytes due ≡ word flag ++ word number) × IsCount due) }
{
    if flag == 0 {
        return if number == 0 { Some(None) } else { None };
    }
    if flag == 1 {
        return Some(Some(section_of(number, None)));
    }
    match VarInt::try_from_u64(flag - 2) {
        Ok(id) => Some(Some(section_of(number, Some(id)))),
        Err(_) => None,
    }
}

// Returns a section that is to be acknowledged.
fn section_of(required: u64, cancelled: Option<VarInt>) -> Unacknowledged
    ensures { result ≡ record { required = required; cancelled = cancelled } }
{
    Unacknowledged {
        required,
        cancelled,
    }
}

// Returns the bytes of a table.
fn stored(
    alloc: Global,
    decoder: &QpackDecoder,
    due: Option<Unacknowledged>,
) -> Result<Vec<u8>, AllocError>
    ensures { IfOk result (λ bytes. IsStoredBy (Some decoder.now) due bytes.items) }
{
    let (flag, number) = words_of(due);
    let mut bytes = Vec::new(alloc);
    put_word(&mut bytes, flag)?;
    put_word(&mut bytes, number)?;
    let rest = decoder.to_bytes(alloc)?;
    bytes.extend_from_slice(rest.as_slice())?;
    Ok(bytes)
}

// Returns whether so many bytes have room for each state of a table.
fn has_room(decoder: &QpackDecoder, len: usize) -> bool
    requires { decoder.now.table.limit < 2 ^ 60 }
    ensures { MatchBool result (room_for decoder.now.table.limit ≤ len) (len < room_for decoder.now.table.limit) }
{
    wt_table_size(decoder.table().limit()) <= len
}

// Returns the table at the start of bytes.
fn restored(
    alloc: Global,
    bytes: &[u8],
) -> Result<(QpackDecoder, Option<Unacknowledged>), Rejection>
    ensures { MatchResult result (λ x. IsTable x.0 x.1 bytes.now)
        (λ e. e ≡ Rejection.Invalid → IsNoTable bytes.now) }
{
    let Some((flag, rest)) = take_word(bytes) else {
        return Err(Rejection::Invalid);
    };
    let Some((number, rest)) = take_word(rest) else {
        return Err(Rejection::Invalid);
    };
    let Some(due) = due_at(flag, number) else {
        return Err(Rejection::Invalid);
    };
    match QpackDecoder::from_bytes(alloc, rest) {
        Ok(Some(decoder)) => {
            if has_room(&decoder, bytes.len()) {
                Ok((decoder, due))
            } else {
                Err(Rejection::Invalid)
            }
        }
        Ok(None) => Err(Rejection::Invalid),
        Err(_) => Err(Rejection::Memory),
    }
}

impl WtConnection {
    // Returns the connection with the table in these bytes, or without one if there are none.
    pub(crate) fn with_table(&self, alloc: Global, table: &[u8]) -> Result<Connection, Rejection>
        ensures { MatchResult result (λ c. HasConnection c self.now × HasTable c table.now)
            (λ e. (e ≡ Rejection.Invalid → IsNoConnection self.now
            ⊎ ((table.now ≢ []) × IsNoTable table.now))
            × (e ≡ Rejection.Memory → table.now ≢ [])) }
    {
        let Some(mut connection) = self.static_connection() else {
            return Err(Rejection::Invalid);
        };
        if table.is_empty() {
            return Ok(connection);
        }
        match restored(alloc, table) {
            Ok((decoder, due)) => {
                connection.restore_table(decoder, due);
                Ok(connection)
            }
            Err(rejection) => Err(rejection),
        }
    }
}

// Returns the bytes of the table of a connection: none if it has none.
pub(crate) fn table_of(alloc: Global, connection: &Connection) -> Result<Vec<u8>, AllocError>
    ensures { MatchResult result
        (λ bytes. IsStoredBy connection.now.decoder connection.now.read bytes.items)
        (λ _. connection.now.decoder ≢ None) }
{
    match connection.table() {
        None => Ok(Vec::new(alloc)),
        Some(decoder) => stored(alloc, decoder, connection.unacknowledged()),
    }
}

/// Returns the size of the array for a table with this capacity, in bytes, or 0 if none can have it.
#[unsafe(no_mangle)]
pub extern "C" fn wt_table_size(capacity: u64) -> usize
    ensures size { capacity < 2 ^ 60 → result ≡ room_for capacity }
    ensures none { 2 ^ 60 ≤ capacity → result ≡ 0 }
{
    if capacity > MAX_CAPACITY {
        return 0;
    }
    5 * capacity as usize + 104
}

/// Creates a table of which the own SETTINGS allow this capacity, and puts it to the start of `table`.
///
/// Returns `OK`, or `INVALID` if `capacity` is 2^60 or more, or if `table` is shorter than
/// `wt_table_size` says, or `MEMORY`. Only `OK` changes anything.
#[unsafe(no_mangle)]
pub extern "C" fn wt_table_new(alloc: Global, capacity: u64, table: &mut [u8]) -> i32
    ensures answers { (result ≡ OK) ⊎ ((result ≡ INVALID) ⊎ (result ≡ MEMORY)) }
    ensures table { result ≡ OK → PutsTable (new_table capacity) None table.old table.new }
    ensures invalid { result ≡ INVALID → (2 ^ 60 ≤ capacity) ⊎ (length table.old < room_for capacity) }
    ensures same { result ≢ OK → table.new ≡ table.old }
{
    if capacity > MAX_CAPACITY || table.len() < wt_table_size(capacity) {
        return INVALID;
    }
    let decoder = QpackDecoder::new(alloc, capacity, 0);
    match stored(alloc, &decoder, None) {
        Ok(bytes) => {
            put(bytes.as_slice(), table);
            OK
        }
        Err(_) => MEMORY,
    }
}

/// Returns how many entries the peer inserted into a table. A stream that waits for no more than these
/// is to be read again.
///
/// Returns `OK` with their number in `count`. Returns `INVALID` if no table is in `table`, or `MEMORY`;
/// nothing changes then.
#[unsafe(no_mangle)]
pub extern "C" fn wt_table_insert_count(alloc: Global, table: &[u8], count: &mut u64) -> i32
    ensures answers { (result ≡ OK) ⊎ ((result ≡ INVALID) ⊎ (result ≡ MEMORY)) }
    ensures count { result ≡ OK → Counts table.now (λ d. insert_count d.table) count.new }
    ensures invalid { result ≡ INVALID → IsNoTable table.now }
    ensures same { result ≢ OK → count.new ≡ count.old }
{
    match restored(alloc, table) {
        Ok((decoder, _)) => {
            *count = decoder.insert_count();
            OK
        }
        Err(rejection) => rejection.answer(),
    }
}

// Writes bytes to the start of `out`, and those of a table to its place. The results are those of
// `write_bytes`.
pub(crate) fn settle(
    said: &[u8],
    bytes: &[u8],
    table: &mut [u8],
    out: &mut [u8],
    used: &mut usize,
) -> i32
    requires { length bytes.now ≤ length table.old }
    ensures answers { (result ≡ OK) ⊎ (result ≡ BUFFER_TOO_SMALL) }
    ensures said { result ≡ OK → WritesPrefix said.now out.old out.new used.new }
    ensures put { result ≡ OK → table.new ≡ bytes.now ++ drop (length bytes.now) table.old }
    ensures room { result ≡ BUFFER_TOO_SMALL → TooShort said.now out.old out.new used.new }
    ensures same { result ≢ OK → table.new ≡ table.old }
{
    let answer = write_bytes(said, out, used);
    if answer != OK {
        return answer;
    }
    put(bytes, table);
    OK
}

// Writes the instruction that is due, if one is. The results are those of `wt_table_acknowledge`.
fn change_table(
    alloc: Global,
    call: TableCall,
    table: &mut [u8],
    out: &mut [u8],
    used: &mut usize,
) -> i32
    ensures answers { (result ≡ OK) ⊎ ((result ≡ BUFFER_TOO_SMALL) ⊎ ((result ≡ INVALID)
        ⊎ (result ≡ MEMORY))) }
    ensures written { result ≡ OK
        → WritesDue (change_of call) table.old table.new out.old out.new used.new }
    ensures room { result ≡ BUFFER_TOO_SMALL
        → LacksRoom (change_of call) table.old out.old out.new used.new }
    ensures invalid { result ≡ INVALID → IsNoTable table.old }
    ensures same { result ≢ OK → (table.new ≡ table.old) × (out.new ≡ out.old) }
    ensures used { result ≢ OK → result ≢ BUFFER_TOO_SMALL → used.new ≡ used.old }
{
    let (mut decoder, mut due) = match restored(alloc, table) {
        Ok(found) => found,
        Err(rejection) => return rejection.answer(),
    };
    let mut said = Vec::new(alloc);
    let Ok(()) = call.apply(&mut decoder, &mut due, &mut said) else {
        return MEMORY;
    };
    let Ok(bytes) = stored(alloc, &decoder, due) else {
        return MEMORY;
    };
    settle(said.as_slice(), bytes.as_slice(), table, out, used)
}

/// Writes the acknowledgment of the field section that the last `wt_receive` with this table read, if it
/// was read with the table (RFC 9204, section 4.4.1), to the start of `out`. `id` is the ID of the stream
/// of that call. To be called after each `wt_receive` with the table, whatever the event is, and before
/// the next one. It writes once, and nothing if this stream was cancelled since.
///
/// Returns `OK` with the size in `used`: 0 if nothing is due. Returns `BUFFER_TOO_SMALL` if `out` is too
/// short; `used` is then the size. Returns `INVALID` if no table is in `table`, or `MEMORY`. Only `OK`
/// changes the table and `out`, and only `OK` and `BUFFER_TOO_SMALL` change `used`.
#[unsafe(no_mangle)]
pub extern "C" fn wt_table_acknowledge(
    alloc: Global,
    table: &mut [u8],
    id: u64,
    out: &mut [u8],
    used: &mut usize,
) -> i32
    ensures answers { (result ≡ OK) ⊎ ((result ≡ BUFFER_TOO_SMALL) ⊎ ((result ≡ INVALID)
        ⊎ (result ≡ MEMORY))) }
    ensures written { result ≡ OK
        → WritesDue (acknowledges id) table.old table.new out.old out.new used.new }
    ensures room { result ≡ BUFFER_TOO_SMALL
        → LacksRoom (acknowledges id) table.old out.old out.new used.new }
    ensures invalid { result ≡ INVALID → IsNoTable table.old }
    ensures same { result ≢ OK → (table.new ≡ table.old) × (out.new ≡ out.old) }
    ensures used { result ≢ OK → result ≢ BUFFER_TOO_SMALL → used.new ≡ used.old }
{
    change_table(alloc, TableCall::Acknowledge(id), table, out, used)
}

/// Writes how many insertions the peer was not told of yet, if there are any (RFC 9204, section 4.4.3), to
/// the start of `out`. Acknowledgments tell it of those that sections needed.
///
/// Returns what `wt_table_acknowledge` returns.
#[unsafe(no_mangle)]
pub extern "C" fn wt_table_increment(
    alloc: Global,
    table: &mut [u8],
    out: &mut [u8],
    used: &mut usize,
) -> i32
    ensures answers { (result ≡ OK) ⊎ ((result ≡ BUFFER_TOO_SMALL) ⊎ ((result ≡ INVALID)
        ⊎ (result ≡ MEMORY))) }
    ensures written { result ≡ OK
        → WritesDue increments table.old table.new out.old out.new used.new }
    ensures room { result ≡ BUFFER_TOO_SMALL
        → LacksRoom increments table.old out.old out.new used.new }
    ensures invalid { result ≡ INVALID → IsNoTable table.old }
    ensures same { result ≢ OK → (table.new ≡ table.old) × (out.new ≡ out.old) }
    ensures used { result ≢ OK → result ≢ BUFFER_TOO_SMALL → used.new ≡ used.old }
{
    change_table(alloc, TableCall::Increment, table, out, used)
}

/// Writes the cancellation of the stream with this ID (RFC 9204, section 4.4.2) to the start of `out`,
/// unless the capacity of the table is 0. It writes at each call: to be called once, after
/// `wt_table_acknowledge`, for each stream of a message whose reading ends before `End`. What is to be
/// acknowledged on another stream still is; after the cancellations of two streams, before it is
/// acknowledged, nothing is.
///
/// Returns what `wt_table_acknowledge` returns.
#[unsafe(no_mangle)]
pub extern "C" fn wt_table_cancel(
    alloc: Global,
    table: &mut [u8],
    id: u64,
    out: &mut [u8],
    used: &mut usize,
) -> i32
    ensures answers { (result ≡ OK) ⊎ ((result ≡ BUFFER_TOO_SMALL) ⊎ ((result ≡ INVALID)
        ⊎ (result ≡ MEMORY))) }
    ensures written { result ≡ OK
        → WritesDue (cancels id) table.old table.new out.old out.new used.new }
    ensures room { result ≡ BUFFER_TOO_SMALL
        → LacksRoom (cancels id) table.old out.old out.new used.new }
    ensures invalid { result ≡ INVALID → IsNoTable table.old }
    ensures same { result ≢ OK → (table.new ≡ table.old) × (out.new ≡ out.old) }
    ensures used { result ≢ OK → result ≢ BUFFER_TOO_SMALL → used.new ≡ used.old }
{
    change_table(alloc, TableCall::Cancel(id), table, out, used)
}

/// Says that more streams wait for the dynamic table than the own SETTINGS allow.
///
/// Returns `OK` with the event: `ConnectionError`, with the code QPACK_DECOMPRESSION_FAILED (RFC 9204,
/// section 2.1.2), or `More` after an error of the connection. Returns `INVALID` if no connection has
/// `connection`; nothing changes then.
#[unsafe(no_mangle)]
pub extern "C" fn wt_too_many_blocked(connection: &mut WtConnection, event: &mut WtEvent) -> i32
    ensures answers { (result ≡ OK) ⊎ (result ≡ INVALID) }
    ensures event { result ≡ OK → (c : Connection) × HasConnection c connection.old
        × (event.new ≡ c_event (too_many_blocked c).0 0)
        × (with_connection connection.old (too_many_blocked c).1 ≡ connection.new) }
    ensures invalid { result ≡ INVALID → IsNoConnection connection.old
        × (connection.new ≡ connection.old) × (event.new ≡ event.old) }
{
    let Some(mut common) = connection.connection() else {
        return INVALID;
    };
    *event = event_of(&common.too_many_blocked(), 0);
    connection.set(&common);
    OK
}
