//! Streams that join their sessions, and those that end before their last byte.
ghost use Rattle.std.specs.Prelude.{◌≡◌, ◌≢◌, ◌⊎◌, Some, None};
ghost use Rattle.wtp_webtransport.specs.declared.connection.Connection.{Connection};
ghost use Rattle.wtp_webtransport.specs.declared.fault.Fault.{Fault};
ghost use Rattle.wtp_webtransport.specs.Events.{told_of};
ghost use Rattle.wtp_webtransport.specs.Fault.{code_of};
ghost use Rattle.wtp_webtransport.specs.Joining.{joins, resets, stops_half, abandons, overflows, stops};
ghost use Rattle.wtp_connection.specs.declared.connection.Known.{Known};
ghost use Rattle.wtp_connection.specs.declared.stream.Purpose.{Purpose};
ghost use Rattle.wt_c.specs.Connections.{HasConnection, with_connection, IsNoConnection};
ghost use Rattle.wt_c.specs.ConnectionCalls.{Changes, known_at as known_at_is, purpose_at as purpose_at_is, IsWithoutStream, change_event};
ghost use Rattle.wt_c.specs.Changes.{changed};

use crate::connections::WtConnection;
use crate::connections::events::{WtEvent, event_of};
use crate::connections::sessions::known_at;
use crate::connections::streams::WtStream;
use crate::status::{ERROR, INVALID, OK};
use std::alloc::Global;
use wtp_connection::connection::Known;
use wtp_connection::stream::Purpose;
use wtp_webtransport::connection::Connection;
use wtp_webtransport::event::Event;
use wtp_webtransport::stream::Stream;

/// What becomes of a stream.
#[derive(Clone, Copy)]
pub(crate) enum Change {
    /// This is known of its session.
    Join(Known),
    /// The peer reset it.
    Reset,
    /// The peer asked to stop the own half of it.
    Stop,
    /// It is read no further.
    Abandon,
    /// More of its bytes wait than the caller keeps.
    Overflow,
}

impl Change {
    // Returns the event of the change.
    fn apply(self, connection: &mut Connection, stream: &mut Stream) -> Event<'static>
        ensures { (told_of result, connection.new, stream.new)
            ≡ changed self connection.old stream.old }
    {
        match self {
            Change::Join(known) => connection.join(stream, known),
            Change::Reset => connection.reset(stream),
            Change::Stop => connection.stop(stream),
            Change::Abandon => connection.abandon(stream),
            Change::Overflow => connection.overflow(stream),
        }
    }
}

// Changes a stream. The bytes that are held are not needed.
fn make_change(
    alloc: Global,
    change: Change,
    connection: &mut WtConnection,
    stream: &mut WtStream,
    event: &mut WtEvent,
) -> i32
    ensures answers { (result ≡ OK) ⊎ (result ≡ INVALID) }
    ensures changed { result ≡ OK → Changes (changed change) connection.old connection.new
        stream.old stream.new event.new }
    ensures invalid { result ≡ INVALID → IsNoConnection connection.old
        ⊎ IsWithoutStream stream.old }
    ensures same { result ≢ OK → (connection.new ≡ connection.old) × (stream.new ≡ stream.old)
        × (event.new ≡ event.old) }
{
    let Some(mut common) = connection.connection() else {
        return INVALID;
    };
    let Some(mut state) = stream.blank(alloc) else {
        return INVALID;
    };
    let given = change.apply(&mut common, &mut state);
    let after = stream.after(&state);
    connection.set(&common);
    *stream = after;
    *event = WtEvent::of_change(&given, after.words.capsules.held);
    OK
}

/// Says what is known of the session of a stream: after `Joins`, and when that changes. `known` is
/// a number of `wt_session_known`.
///
/// Returns `OK` with the event of `Connection::join` of the crate `wtp_webtransport`: `Joined`,
/// `Waits`, `StreamError`, `ConnectionError` or `More`. Returns `INVALID` if `known` is above 5, or
/// if a struct is that of no connection or of no stream; nothing changes then. The bytes that are
/// held stay.
#[unsafe(no_mangle)]
pub extern "C" fn wt_stream_join(
    alloc: Global,
    connection: &mut WtConnection,
    stream: &mut WtStream,
    known: u32,
    event: &mut WtEvent,
) -> i32
    ensures answers { (result ≡ OK) ⊎ (result ≡ INVALID) }
    ensures changed { result ≡ OK → (k : Known) × (known_at_is known ≡ Some k)
        × Changes (λ c s. joins c s k) connection.old connection.new
        stream.old stream.new event.new }
    ensures invalid { result ≡ INVALID → (known_at_is known ≡ None)
        ⊎ (IsNoConnection connection.old ⊎ IsWithoutStream stream.old) }
    ensures same { result ≢ OK → (connection.new ≡ connection.old) × (stream.new ≡ stream.old)
        × (event.new ≡ event.old) }
{
    match known_at(known) {
        Some(known) => make_change(alloc, Change::Join(known), connection, stream, event),
        None => INVALID,
    }
}

/// Says that the peer reset a stream. Its bytes that were not returned are lost, and the stream is
/// over.
///
/// Returns `OK` with the event of `Connection::reset` of the crate `wtp_webtransport`:
/// `SessionLost`, `Reset`, `ConnectionError` or `More`. Returns `INVALID` if a struct is that of no
/// connection or of no stream; nothing changes then.
#[unsafe(no_mangle)]
pub extern "C" fn wt_stream_reset(
    alloc: Global,
    connection: &mut WtConnection,
    stream: &mut WtStream,
    event: &mut WtEvent,
) -> i32
    ensures answers { (result ≡ OK) ⊎ (result ≡ INVALID) }
    ensures changed { result ≡ OK → Changes resets connection.old connection.new
        stream.old stream.new event.new }
    ensures invalid { result ≡ INVALID → IsNoConnection connection.old
        ⊎ IsWithoutStream stream.old }
    ensures same { result ≢ OK → (connection.new ≡ connection.old) × (stream.new ≡ stream.old)
        × (event.new ≡ event.old) }
{
    make_change(alloc, Change::Reset, connection, stream, event)
}

/// Says that the peer asked to stop the own half of a bidirectional stream (STOP_SENDING). The own
/// half is to be reset.
///
/// Returns `OK` with the event of `Connection::stop` of the crate `wtp_webtransport`: `SessionLost`
/// if it is the own stream of an open session, and otherwise `More`. Returns `INVALID` as
/// `wt_stream_reset`.
#[unsafe(no_mangle)]
pub extern "C" fn wt_stream_stop(
    alloc: Global,
    connection: &mut WtConnection,
    stream: &mut WtStream,
    event: &mut WtEvent,
) -> i32
    ensures answers { (result ≡ OK) ⊎ (result ≡ INVALID) }
    ensures changed { result ≡ OK → Changes stops_half connection.old connection.new
        stream.old stream.new event.new }
    ensures invalid { result ≡ INVALID → IsNoConnection connection.old
        ⊎ IsWithoutStream stream.old }
    ensures same { result ≢ OK → (connection.new ≡ connection.old) × (stream.new ≡ stream.old)
        × (event.new ≡ event.old) }
{
    make_change(alloc, Change::Stop, connection, stream, event)
}

/// Ends the reading of a stream, for a reason of the application. The stream is over, but for the
/// control stream and those of QPACK, which stay as they are.
///
/// Returns `OK` with the event of `Connection::abandon` of the crate `wtp_webtransport`:
/// `SessionLost` if it is the own stream of an open session, and otherwise `More`. Returns
/// `INVALID` as `wt_stream_reset`.
#[unsafe(no_mangle)]
pub extern "C" fn wt_stream_abandon(
    alloc: Global,
    connection: &mut WtConnection,
    stream: &mut WtStream,
    event: &mut WtEvent,
) -> i32
    ensures answers { (result ≡ OK) ⊎ (result ≡ INVALID) }
    ensures changed { result ≡ OK → Changes abandons connection.old connection.new
        stream.old stream.new event.new }
    ensures invalid { result ≡ INVALID → IsNoConnection connection.old
        ⊎ IsWithoutStream stream.old }
    ensures same { result ≢ OK → (connection.new ≡ connection.old) × (stream.new ≡ stream.old)
        × (event.new ≡ event.old) }
{
    make_change(alloc, Change::Abandon, connection, stream, event)
}

/// Says that more bytes of a stream wait than the caller keeps. The stream is over.
///
/// Returns `OK` with the event of `Connection::overflow` of the crate `wtp_webtransport`:
/// `StreamError`, `ConnectionError` or `More`. Returns `INVALID` as `wt_stream_reset`.
#[unsafe(no_mangle)]
pub extern "C" fn wt_stream_overflow(
    alloc: Global,
    connection: &mut WtConnection,
    stream: &mut WtStream,
    event: &mut WtEvent,
) -> i32
    ensures answers { (result ≡ OK) ⊎ (result ≡ INVALID) }
    ensures changed { result ≡ OK → Changes overflows connection.old connection.new
        stream.old stream.new event.new }
    ensures invalid { result ≡ INVALID → IsNoConnection connection.old
        ⊎ IsWithoutStream stream.old }
    ensures same { result ≢ OK → (connection.new ≡ connection.old) × (stream.new ≡ stream.old)
        × (event.new ≡ event.old) }
{
    make_change(alloc, Change::Overflow, connection, stream, event)
}

// Returns the purpose of a number, of those that an own stream has.
fn purpose_at(number: u32) -> Option<Purpose>
    ensures { result ≡ purpose_at_is number }
{
    match number {
        0 => Some(Purpose::Control),
        2 => Some(Purpose::Encoder),
        3 => Some(Purpose::Decoder),
        4 => Some(Purpose::Session(0)),
        _ => None,
    }
}

/// Says that the peer asked to stop a unidirectional stream that was opened here (STOP_SENDING).
/// `purpose` is what it is for: the control stream (0), QPACK's encoder (2) or decoder (3), or a
/// session (4).
///
/// Returns `OK`: the stream is to be reset. Returns `ERROR` with the code
/// `H3_CLOSED_CRITICAL_STREAM`, for the connection. Returns `INVALID` if `purpose` is another, or
/// if no connection has `connection`; nothing changes then. Only `ERROR` changes `code`.
#[unsafe(no_mangle)]
pub extern "C" fn wt_stopped(connection: &mut WtConnection, purpose: u32, code: &mut u64) -> i32
    ensures answers { (result ≡ OK) ⊎ ((result ≡ ERROR) ⊎ (result ≡ INVALID)) }
    ensures stopped { result ≡ OK → (c : Connection) × (p : Purpose)
        × HasConnection c connection.old × (purpose_at_is purpose ≡ Some p)
        × ((stops c p).1 ≡ None) × (with_connection connection.old (stops c p).0 ≡ connection.new) }
    ensures fault { result ≡ ERROR → (c : Connection) × (p : Purpose) × (f : Fault)
        × HasConnection c connection.old × (purpose_at_is purpose ≡ Some p)
        × ((stops c p).1 ≡ Some f) × (with_connection connection.old (stops c p).0 ≡ connection.new)
        × (code.new ≡ code_of f) }
    ensures invalid { result ≡ INVALID → (purpose_at_is purpose ≡ None)
        ⊎ IsNoConnection connection.old }
    ensures same { result ≡ INVALID → connection.new ≡ connection.old }
    ensures code { result ≢ ERROR → code.new ≡ code.old }
{
    let Some(purpose) = purpose_at(purpose) else {
        return INVALID;
    };
    let Some(mut common) = connection.connection() else {
        return INVALID;
    };
    let stopped = common.stopped(purpose);
    connection.set(&common);
    match stopped {
        None => OK,
        Some(fault) => {
            *code = fault.code().number().into_inner();
            ERROR
        }
    }
}
