//! What is known of sessions, and their datagrams.
ghost use Rattle.std.specs.Prelude.{◌≡◌, ◌⊎◌, ◌<◌, length, pos, Ok, Err, MatchOption, MatchResult, option_map};
ghost use Rattle.wtp_connection.specs.declared.connection.Known.{Known};
ghost use Rattle.wtp_connection.specs.Datagrams.{datagram_for};
ghost use Rattle.wtp_webtransport.specs.declared.connection.Connection.{Connection};
ghost use Rattle.wtp_webtransport.specs.Joining.{takes, after_datagram};
ghost use Rattle.wt_c.specs.Connections.{HasConnection, with_connection, IsNoConnection};
ghost use Rattle.wt_c.specs.ConnectionCalls.{known_number, known_at as known_at_is, KnownBy, IsOneWithoutStream, datagram_event, use_number, EndsWith};

use crate::connections::WtConnection;
use crate::connections::events::WtEvent;
use crate::connections::streams::WtStream;
use crate::status::{INVALID, OK};
use std::alloc::Global;
use wtp_connection::connection::Known;
use wtp_connection::connection::datagrams::DatagramFor;
use wtp_webtransport::fault::Fault;

// Returns the number of what is known of a session.
fn number_of(known: Known) -> u32
    ensures { result ≡ known_number known }
{
    match known {
        Known::Coming => 0,
        Known::Open => 1,
        Known::Over => 2,
        Known::Refused => 3,
        Known::Other => 4,
        Known::Impossible => 5,
    }
}

// Returns what is known of a session by its number.
pub(crate) fn known_at(number: u32) -> Option<Known>
    ensures { result ≡ known_at_is number }
{
    match number {
        0 => Some(Known::Coming),
        1 => Some(Known::Open),
        2 => Some(Known::Over),
        3 => Some(Known::Refused),
        4 => Some(Known::Other),
        5 => Some(Known::Impossible),
        _ => None,
    }
}

/// Returns what is known of a session. `its` is the stream with the session's ID, if the caller has
/// one: an array of 0 or 1.
///
/// Returns `OK` with the number in `known`: the request is to come or has no answer (0), the
/// session is open (1), over (2), refused (3), the request asked for no session (4), or no session
/// can have the ID (5). Returns `INVALID` if there are several streams, or if a struct is that of
/// no connection or of no stream; `known` does not change then.
#[unsafe(no_mangle)]
#[tactic(auto, using(crate::proofs::BlankLemmas::known_one, crate::proofs::BlankLemmas::none_one, crate::proofs::BlankLemmas::several))]
pub extern "C" fn wt_session_known(
    alloc: Global,
    connection: &WtConnection,
    session: u64,
    its: &[WtStream],
    known: &mut u32,
) -> i32
    ensures answers { (result ≡ OK) ⊎ (result ≡ INVALID) }
    ensures known { result ≡ OK → (c : Connection) × HasConnection c connection.now
        × KnownBy its.now session c known.new }
    ensures invalid { result ≡ INVALID → ((1 < length its.now) ⊎ (IsNoConnection connection.now
        ⊎ IsOneWithoutStream its.now)) × (known.new ≡ known.old) }
{
    let Some(common) = connection.connection() else {
        return INVALID;
    };
    let Some((stream, others)) = its.split_first() else {
        *known = number_of(common.known_without_stream(session));
        return OK;
    };
    if !others.is_empty() {
        return INVALID;
    }
    match stream.blank(alloc) {
        Some(state) => {
            *known = number_of(common.known(&state));
            OK
        }
        None => INVALID,
    }
}

// Returns the event of a datagram, whose payload is the end of so many bytes.
fn event_of(taken: Result<Option<(u64, &[u8])>, Fault>, end: usize) -> WtEvent
    ensures { MatchResult taken.entry
        (λ d. result ≡ datagram_event (Ok (option_map (λ p. (p.0, p.1.now)) d)) end)
        (λ f. result ≡ datagram_event (Err f) end) }
{
    let mut event = match taken {
        Ok(Some((session, payload))) => WtEvent::of_datagram(session, payload, end),
        Ok(None) => WtEvent::plain(16, 0, 0),
        Err(fault) => WtEvent::plain(22, 0, fault.code().number().into_inner()),
    };
    event.consumed = end;
    event
}

/// Reads the payload of a QUIC datagram.
///
/// Returns `OK` with the event: `Datagram` with `detail` 1, the session's ID in `number`, and its
/// payload in `bytes`, where the event says; `Skipped` if the datagram is to be dropped; or
/// `ConnectionError`. `wt_session_known` says what is known of the session, and `wt_datagram_use`
/// what is to be done with the datagram. Returns `INVALID` if no connection has `connection`;
/// nothing changes then.
#[unsafe(no_mangle)]
pub extern "C" fn wt_datagram_receive(
    connection: &mut WtConnection,
    bytes: &[u8],
    event: &mut WtEvent,
) -> i32
    ensures answers { (result ≡ OK) ⊎ (result ≡ INVALID) }
    ensures taken { result ≡ OK → (c : Connection) × HasConnection c connection.old
        × (event.new ≡ datagram_event (takes c bytes.now) (length bytes.now))
        × (with_connection connection.old (after_datagram c bytes.now) ≡ connection.new)
        × EndsWith bytes.now (takes c bytes.now) }
    ensures invalid { result ≡ INVALID → IsNoConnection connection.old
        × (connection.new ≡ connection.old) × (event.new ≡ event.old) }
{
    let Some(mut common) = connection.connection() else {
        return INVALID;
    };
    *event = event_of(common.datagram(bytes), bytes.len());
    connection.set(&common);
    OK
}

/// Returns what is to be done with a datagram, by what is known of its session: 0 if it is the
/// application's; 1 if its session is to come, so it may be kept for about a round trip; 2 if it is
/// to be dropped; 3 if it is to be dropped, and the stream with the session's ID is to be reset and
/// stopped with `H3_DATAGRAM_ERROR` (RFC 9297, section 2). Returns `INVALID` if `known` is above 5.
#[unsafe(no_mangle)]
pub extern "C" fn wt_datagram_use(known: u32) -> i32
    ensures number { MatchOption (known_at_is known) (result ≡ INVALID)
        (λ k. result ≡ pos (use_number (datagram_for k))) }
{
    match known_at(known) {
        None => INVALID,
        Some(known) => match known.datagram_for() {
            DatagramFor::Deliver => 0,
            DatagramFor::Early => 1,
            DatagramFor::Discard => 2,
            DatagramFor::EndStream => 3,
        },
    }
}
