//! What is next on a stream whose bytes come once, in chunks.
ghost use Rattle.std.specs.Prelude.{◌≡◌, ◌≢◌, ◌⊎◌, ◌<◌, ◌==◌, ◌&&◌, ◌||◌, not, [], length};
ghost use Rattle.wtp_frames.specs.Words.{flag_number};
ghost use Rattle.wtp_webtransport.specs.Events.{NoMemory};
ghost use Rattle.wtp_webtransport.specs.Receiving.{Outcome};
ghost use Rattle.wt_c.specs.Connections.{IsNoConnection, held_by, IsNoStream};
ghost use Rattle.wt_c.specs.ConnectionCalls.{Gives, Leaves, event_from};
ghost use Rattle.wt_c.specs.Tables.{IsNoTable, LeavesTable};
ghost use Rattle.wt_c.specs.Pushing.{IsHold, held_of, read_by, reads_all, is_ended as is_ended_is, event_in, Holds, AreRead};

use crate::connections::WtConnection;
use crate::connections::events::WtEvent;
use crate::connections::hold::{WtHold, fill, read_from};
use crate::connections::receiving::wt_receive;
use crate::connections::streams::WtStream;
use crate::fields::WtField;
use crate::status::{BUFFER_TOO_SMALL, INVALID, MEMORY, OK};
use std::alloc::Global;

/// Returns what is next on a stream, as `wt_receive` does with the bytes that are held and then those
/// of a chunk: with the chunk if none are held, and otherwise with those that are held and as many of
/// the chunk as `room`, the array that holds them, has room for. `fin` is not 0 if the stream ends
/// right after the chunk.
///
/// - `OK`: `event` is the event. Its bytes are in `room` if `hold.in_array` is 1, and otherwise in
///   the chunk. `hold.taken` bytes of the chunk were taken, and the next call is to be made with the
///   others. After `More` and `Waits` all were, and those that were not consumed are held, or they are
///   more than `room` has room for. After other events no byte of the chunk is held. The event is
///   `Skipped` where the bytes read have nothing more and some of the chunk were not read.
/// - `BUFFER_TOO_SMALL`, `INVALID`, `MEMORY`: as `wt_receive`. Also `INVALID` if `hold` is not the
///   hold of an array as long as `room`. The same bytes are held, none of the chunk was taken
///   (`hold.taken` is 0), and whether the stream ends with it is not kept.
#[unsafe(no_mangle)]
pub extern "C" fn wt_receive_pushed(
    alloc: Global,
    connection: &mut WtConnection,
    stream: &mut WtStream,
    held: &mut [u8],
    table: &mut [u8],
    hold: &mut WtHold,
    room: &mut [u8],
    chunk: &[u8],
    fin: u8,
    event: &mut WtEvent,
    fields: &mut [WtField],
    out: &mut [u8],
) -> i32
    ensures answers { (result ≡ OK) ⊎ ((result ≡ BUFFER_TOO_SMALL) ⊎ ((result ≡ INVALID)
        ⊎ (result ≡ MEMORY))) }
    ensures event { result ≡ OK → (o : Outcome)
        × Gives connection.old stream.old held.old table.old (read_by hold.old room.old chunk.now)
        (is_ended_is hold.old fin && reads_all hold.old room.old chunk.now) o
        × (event.new ≡ event_in (reads_all hold.old room.old chunk.now)
        (event_from connection.old.max_datagram o))
        × Leaves o connection.old connection.new stream.new held.old held.new
        (read_by hold.old room.old chunk.now) fields.old fields.new out.old out.new
        (event_from connection.old.max_datagram o)
        × LeavesTable o.2 table.old table.new }
    ensures holds { result ≡ OK → Holds (held_of hold.old room.old) chunk.now (length room.old)
        event.new.kind event.new.consumed hold.new room.new }
    ensures place { result ≡ OK → AreRead hold.new room.new chunk.now
        (read_by hold.old room.old chunk.now) }
    ensures fin { result ≡ OK → hold.new.fin ≡ flag_number (is_ended_is hold.old fin) }
    ensures room { result ≡ BUFFER_TOO_SMALL → (o : Outcome)
        × Gives connection.old stream.old held.old table.old (read_by hold.old room.old chunk.now)
        (is_ended_is hold.old fin && reads_all hold.old room.old chunk.now) o
        × (event.new ≡ event_from connection.old.max_datagram o)
        × ((length fields.old < event.new.count) ⊎ ((length out.old < event.new.used)
        ⊎ (length held.old < event.new.kept))) }
    ensures invalid { result ≡ INVALID → (¬ (IsHold hold.old (length room.old)))
        ⊎ (IsNoConnection connection.old ⊎ (IsNoStream stream.old held.old
        ⊎ ((table.old ≢ []) × IsNoTable table.old))) }
    ensures memory { result ≡ MEMORY → (held_by stream.old held.old ≢ []) ⊎ ((table.old ≢ [])
        ⊎ ((o : Outcome)
        × Gives connection.old stream.old held.old table.old (read_by hold.old room.old chunk.now)
        (is_ended_is hold.old fin && reads_all hold.old room.old chunk.now) o × (o.1 ≡ NoMemory))) }
    ensures same { result ≢ OK → (connection.new ≡ connection.old) × (stream.new ≡ stream.old)
        × (held.new ≡ held.old) × (table.new ≡ table.old) × (fields.new ≡ fields.old)
        × (out.new ≡ out.old) }
    ensures hold_same { result ≢ OK → (held_of hold.new room.new ≡ held_of hold.old room.old)
        × (hold.new.fin ≡ hold.old.fin) }
    ensures not_taken { result ≢ OK → hold.new.taken ≡ 0 }
    ensures hold_valid { IsHold hold.old (length room.old) → IsHold hold.new (length room.old) }
    ensures event_same { result ≢ OK → result ≢ BUFFER_TOO_SMALL → event.new ≡ event.old }
    ensures without { table.old ≡ [] → table.new ≡ table.old }
{
    hold.taken = 0;
    if !hold.is_valid(room.len()) {
        return INVALID;
    }
    let kept = hold.gather(room);
    let taken = fill(chunk, kept, room);
    let ended = is_ended(hold, fin);
    let last = last_of(ended, taken, chunk.len());
    let bytes = read_from(kept, kept + taken, chunk, room);
    let answer = wt_receive(
        alloc, connection, stream, held, table, bytes, last, event, fields, out,
    );
    hold.keep(kept);
    if answer != OK {
        return answer;
    }
    hold.fin = ended as u8;
    hold.settle(event, kept, taken, chunk, room);
    OK
}

// Returns whether the stream ends with the chunk, or ended before.
fn is_ended(hold: &WtHold, fin: u8) -> bool
    ensures { result ≡ is_ended_is hold.now fin }
{
    fin != 0 || hold.fin != 0
}

// Returns 1 if the stream ends after the first `taken` of `size` bytes, and otherwise 0.
fn last_of(ended: bool, taken: usize, size: usize) -> u8
    ensures { not (result == 0) ≡ (ended && (taken == size)) }
{
    if ended && taken == size { 1 } else { 0 }
}
