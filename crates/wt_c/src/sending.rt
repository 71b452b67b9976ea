//! What is sent: the states of the streams of requests, and of the own control stream, in structs of the
//! caller. The calls are those of the crate `wtp_sending`.
ghost use Rattle.std.specs.Prelude.{◌≡◌, ◌≢◌, ◌⊎◌, None, Some, not, false, true, MatchOption};
ghost use Rattle.wtp_frames.specs.declared.endpoint.Side.TheVariants as side;
ghost use Rattle.wtp_messages.specs.declared.message.Role.TheVariants as role;
ghost use Rattle.wtp_messages.specs.declared.response.Asked.{Asked};
ghost use Rattle.wtp_sending.specs.declared.error.SendError.TheVariants as error;
ghost use Rattle.wtp_sending.specs.Message.{sending_of};
ghost use Rattle.wtp_sending.specs.Words.{IsOfRequest};
ghost use Rattle.wtp_webtransport.specs.declared.connection.Connection.{Connection};
ghost use Rattle.wt_c.specs.Connections.{HasConnection, IsNoConnection};
ghost use Rattle.wt_c.specs.ConnectionCalls.{asked_at as asked_at_is};
ghost use Rattle.wt_c.specs.Numbers.{IsSessionNumber};
ghost use Rattle.wt_c.specs.Output.{WritesPrefix, TooShort};
ghost use Rattle.wt_c.specs.Sending.{sending_with, HasSending, IsNoSending, allowed_by, may_begin, IsAtSide, reason_number};
ghost use Rattle.wt_c.specs.SendingCalls.{Refuses};

pub mod control;
pub mod encoded;
pub mod encoder;
mod lists;
pub mod messages;
pub mod reasons;
pub mod session;

use crate::connections::WtConnection;
use crate::connections::streams::asked_at;
use crate::numbers::session_of;
use crate::output::write_bytes;
use crate::sending::reasons::tell;
use crate::status::{BUFFER_TOO_SMALL, INVALID, OK, REFUSED};
use wtp_sending::error::SendError;
use wtp_sending::message::Sending;
use wtp_sending::message::words::SendingWords;
use wtp_sending::peer::Peer;
use wtp_webtransport::connection::Connection;

/// The sending side of the stream of a request.
#[repr(C)]
#[derive(Clone, Copy)]
pub struct WtSending {
    /// What was sent.
    pub words: SendingWords,
    /// 0.
    pub reserved: [u64; 5],
}

impl WtSending {
    // Creates the struct of a state.
    pub(crate) fn of(sending: &Sending) -> Self
        ensures { result ≡ sending_with sending.now }
    {
        WtSending {
            words: sending.to_words(),
            reserved: [0; 5],
        }
    }

    // Returns the state, or `None` if no state has this struct.
    #[tactic(auto, using(crate::proofs::SendingLemmas::no_words, crate::proofs::SendingLemmas::no_zeros))]
    pub(crate) fn sending(&self) -> Option<Sending>
        ensures { MatchOption result (IsNoSending self.now) (λ s. HasSending s self.now) }
    {
        if self.reserved != [0; 5] {
            return None;
        }
        Sending::from_words(self.words)
    }

    // Puts bytes to the start of `out`, and the state after them in place of this one. The results
    // are those of `write_bytes`.
    pub(crate) fn give(
        &mut self,
        bytes: &[u8],
        after: &Sending,
        out: &mut [u8],
        used: &mut usize,
    ) -> i32
        ensures answers { (result ≡ OK) ⊎ (result ≡ BUFFER_TOO_SMALL) }
        ensures bytes { result ≡ OK → WritesPrefix bytes.now out.old out.new used.new
            × HasSending after.now self.new }
        ensures room { result ≡ BUFFER_TOO_SMALL → TooShort bytes.now out.old out.new used.new
            × (self.new ≡ self.old) }
    {
        let answer = write_bytes(bytes, out, used);
        if answer == OK {
            *self = WtSending::of(after);
        }
        answer
    }
}

// Returns what the peer of a connection allows.
fn peer_of(connection: &Connection) -> Peer
    ensures { result ≡ allowed_by connection.now }
{
    let settings = connection.peer_settings();
    Peer {
        extended_connect: settings.enable_connect_protocol,
        sessions: connection.allows_sessions(),
        max_section: settings.max_field_section_size.unwrap_or(u64::MAX),
    }
}

/// Creates the sending side of the stream of a request, at a client. `id` is the ID of the stream. What
/// may be sent is by the settings of the peer, as they are now.
///
/// Returns `OK`. Returns `REFUSED`, for `Unexpected`, after a GOAWAY of the server, and after an error
/// of the connection. Returns `INVALID` if no connection has `connection`, if it is that of a server, or
/// if `id` is not that of a bidirectional stream of a client. Only `OK` changes `sending`, and only
/// `REFUSED` changes `why`.
#[unsafe(no_mangle)]
#[tactic(auto, using(crate::proofs::SendingLemmas::client_is, crate::proofs::SendingLemmas::server_is, crate::proofs::SendingLemmas::may_is, crate::proofs::SendingLemmas::goaway_came, crate::proofs::SendingLemmas::is_over))]
pub extern "C" fn wt_sending_request(
    connection: &WtConnection,
    id: u64,
    sending: &mut WtSending,
    why: &mut u32,
) -> i32
    ensures answers { (result ≡ OK) ⊎ ((result ≡ INVALID) ⊎ (result ≡ REFUSED)) }
    ensures begun { result ≡ OK → IsSessionNumber id
        × (c : Connection) × HasConnection c connection.now × (c.endpoint.side ≡ side.Client)
        × (may_begin c.goaway c.over ≡ true) × HasSending (sending_of id
        (role.Request (allowed_by c).extended_connect) (allowed_by c)) sending.new }
    ensures refused { result ≡ REFUSED → (c : Connection) × HasConnection c connection.now
        × (may_begin c.goaway c.over ≡ false) × (why.new ≡ reason_number error.Unexpected) }
    ensures invalid { result ≡ INVALID → IsNoConnection connection.now
        ⊎ (IsAtSide side.Server connection.now ⊎ (¬ (IsSessionNumber id))) }
    ensures same { result ≢ OK → sending.new ≡ sending.old }
    ensures why { result ≢ REFUSED → why.new ≡ why.old }
{
    let Some(common) = connection.connection() else {
        return INVALID;
    };
    let Some(stream) = session_of(id) else {
        return INVALID;
    };
    let words = connection.words;
    if words.endpoint.side != 0 {
        return INVALID;
    }
    if words.goaway.present != 0 {
        return tell(SendError::Unexpected, why);
    }
    if words.over != 0 {
        return tell(SendError::Unexpected, why);
    }
    *sending = WtSending::of(&Sending::request(stream, peer_of(&common)));
    OK
}

/// Creates the sending side of the stream of a request that came, at a server: the response. The request
/// is a HEAD request (1), CONNECT (2), one for a session (3), or another (0).
///
/// Returns `OK`. Returns `REFUSED`, for `Unexpected`, after an error of the connection. Returns
/// `INVALID` if no connection has `connection`, if it is that of a client, if `asked` is above 3, or if
/// `id` is not that of a bidirectional stream of a client. Only `OK` changes `sending`, and only
/// `REFUSED` changes `why`.
#[unsafe(no_mangle)]
#[tactic(auto, using(crate::proofs::SendingLemmas::client_is, crate::proofs::SendingLemmas::server_is, crate::proofs::SendingLemmas::over_is, crate::proofs::SendingLemmas::not_over))]
pub extern "C" fn wt_sending_response(
    connection: &WtConnection,
    id: u64,
    asked: u32,
    sending: &mut WtSending,
    why: &mut u32,
) -> i32
    ensures answers { (result ≡ OK) ⊎ ((result ≡ INVALID) ⊎ (result ≡ REFUSED)) }
    ensures begun { result ≡ OK → IsSessionNumber id × (a : Asked) × (asked_at_is asked ≡ Some a)
        × (c : Connection) × HasConnection c connection.now × (c.endpoint.side ≡ side.Server)
        × (c.over ≡ false)
        × HasSending (sending_of id (role.Response a) (allowed_by c)) sending.new }
    ensures refused { result ≡ REFUSED → (c : Connection) × HasConnection c connection.now
        × (c.over ≡ true) × (why.new ≡ reason_number error.Unexpected) }
    ensures invalid { result ≡ INVALID → IsNoConnection connection.now
        ⊎ (IsAtSide side.Client connection.now
        ⊎ ((asked_at_is asked ≡ None) ⊎ (¬ (IsSessionNumber id)))) }
    ensures same { result ≢ OK → sending.new ≡ sending.old }
    ensures why { result ≢ REFUSED → why.new ≡ why.old }
{
    let Some(common) = connection.connection() else {
        return INVALID;
    };
    let Some(stream) = session_of(id) else {
        return INVALID;
    };
    let Some(asked) = asked_at(asked) else {
        return INVALID;
    };
    let words = connection.words;
    if words.endpoint.side == 0 {
        return INVALID;
    }
    if words.over != 0 {
        return tell(SendError::Unexpected, why);
    }
    *sending = WtSending::of(&Sending::response(stream, asked, peer_of(&common)));
    OK
}
