//! What is next on a stream.
ghost use Rattle.std.specs.Prelude.{◌≡◌, ◌≢◌, ◌⊎◌, ◌<◌, ◌==◌, not, [], length};
ghost use Rattle.wtp_webtransport.specs.Events.{NoMemory};
ghost use Rattle.wtp_webtransport.specs.Receiving.{Outcome};
ghost use Rattle.wt_c.specs.Connections.{IsNoConnection, held_by, IsNoStream};
ghost use Rattle.wt_c.specs.ConnectionCalls.{Gives, Leaves, event_from};
ghost use Rattle.wt_c.specs.Tables.{IsNoTable, LeavesTable};

use crate::connections::WtConnection;
use crate::connections::beside::{put, put_beside, room_of};
use crate::connections::events::{WtEvent, event_of, within};
use crate::connections::streams::WtStream;
use crate::connections::table::table_of;
use crate::fields::WtField;
use crate::status::{BUFFER_TOO_SMALL, INVALID, MEMORY, OK};
use std::alloc::Global;
use wtp_webtransport::event::Event;
use wtp_webtransport::fields::Fields;

/// Returns what is next in the bytes of a stream that follow those consumed before. `fin` is not 0
/// if the stream ends right after them. `table` is the memory of QPACK's dynamic table, which
/// `wt_table_new` made for the connection; it is empty if the own SETTINGS allow none.
///
/// - `OK`: `event` is the event. Its bytes are in `bytes`, where it says; its fields are the first
///   `count` of `fields`, with their texts in the first `used` bytes of `out`, or its reason or
///   datagram is these bytes. The first `kept` bytes of `held` are held: those of a capsule that is
///   cut.
/// - `BUFFER_TOO_SMALL`: one of the arrays is shorter than `event` says. The event is the one that
///   the call gives where they are not.
/// - `INVALID`: no connection has `connection`, no stream has `stream` and the bytes held, or no table
///   is in `table`.
/// - `MEMORY`: allocation failed, for the bytes that are held, for the table, or for what was read.
///
/// Only `OK` changes anything but `event`, and only `OK` and `BUFFER_TOO_SMALL` change that.
#[unsafe(no_mangle)]
pub extern "C" fn wt_receive(
    alloc: Global,
    connection: &mut WtConnection,
    stream: &mut WtStream,
    held: &mut [u8],
    table: &mut [u8],
    bytes: &[u8],
    fin: u8,
    event: &mut WtEvent,
    fields: &mut [WtField],
    out: &mut [u8],
) -> i32
    ensures answers { (result ≡ OK) ⊎ ((result ≡ BUFFER_TOO_SMALL) ⊎ ((result ≡ INVALID)
        ⊎ (result ≡ MEMORY))) }
    ensures event { result ≡ OK → (o : Outcome)
        × Gives connection.old stream.old held.old table.old bytes.now (not (fin == 0)) o
        × (event.new ≡ event_from connection.old.max_datagram o)
        × Leaves o connection.old connection.new stream.new held.old held.new bytes.now
        fields.old fields.new out.old out.new event.new
        × LeavesTable o.2 table.old table.new }
    ensures room { result ≡ BUFFER_TOO_SMALL → (o : Outcome)
        × Gives connection.old stream.old held.old table.old bytes.now (not (fin == 0)) o
        × (event.new ≡ event_from connection.old.max_datagram o)
        × ((length fields.old < event.new.count) ⊎ ((length out.old < event.new.used)
        ⊎ (length held.old < event.new.kept))) }
    ensures invalid { result ≡ INVALID → IsNoConnection connection.old
        ⊎ (IsNoStream stream.old held.old ⊎ ((table.old ≢ []) × IsNoTable table.old)) }
    ensures memory { result ≡ MEMORY → (held_by stream.old held.old ≢ []) ⊎ ((table.old ≢ [])
        ⊎ ((o : Outcome)
        × Gives connection.old stream.old held.old table.old bytes.now (not (fin == 0)) o
        × (o.1 ≡ NoMemory))) }
    ensures same { result ≢ OK → (connection.new ≡ connection.old) × (stream.new ≡ stream.old)
        × (held.new ≡ held.old) × (table.new ≡ table.old) × (fields.new ≡ fields.old)
        × (out.new ≡ out.old) }
    ensures event_same { result ≢ OK → result ≢ BUFFER_TOO_SMALL → event.new ≡ event.old }
    ensures without { table.old ≡ [] → table.new ≡ table.old }
{
    let mut common = match connection.with_table(alloc, table) {
        Ok(common) => common,
        Err(rejection) => return rejection.answer(),
    };
    let mut state = match stream.stream(alloc, held) {
        Ok(state) => state,
        Err(rejection) => return rejection.answer(),
    };
    let mut memory = Fields::new(alloc, connection.max_fields);
    let received = common.receive(&mut state, bytes, fin != 0, &mut memory);
    if let Event::NoMemory = &received.event {
        return MEMORY;
    }
    let Ok(stored) = table_of(alloc, &common) else {
        return MEMORY;
    };
    let consumed = received.consumed;
    let given = within(received.event, connection.max_datagram);
    let (after, left) = WtStream::within(&state, connection.max_datagram);
    *event = WtEvent::whole(&given, consumed, left.len());
    if event.count > fields.len() || event.used > out.len() || event.kept > held.len() {
        return BUFFER_TOO_SMALL;
    }
    put_beside(&given, fields, out);
    put(left, held);
    put(stored.as_slice(), table);
    connection.set(&common);
    *stream = after;
    OK
}
