//! Connections: their states in structs of the caller, and what is next on each stream. The calls
//! are those of the crate `wtp_webtransport`.
ghost use Rattle.std.specs.Prelude.{◌≡◌, ◌≢◌, ◌⊎◌, ◌==◌, ◌≤◌, not, IfSome, MatchOption, MatchBool, replicate};
ghost use Rattle.wtp_webtransport.specs.declared.connection.Connection.{Connection};
ghost use Rattle.wtp_webtransport.specs.Sessions.{allows_sessions};
ghost use Rattle.wtp_webtransport.specs.Streams.{connection_of, is_unprocessed_by};
ghost use Rattle.wtp_webtransport.specs.Words.{without_table};
ghost use Rattle.wt_c.specs.Connections.{side_with, endpoint_of, IsEndpoint, connection_with, with_connection, HasConnection, IsNoConnection, Says};

pub mod beside;
pub mod budget;
pub mod changes;
pub mod control;
pub mod events;
pub mod hold;
pub mod peer;
pub mod pushing;
pub mod receiving;
pub mod sessions;
pub mod streams;
pub mod table;

use crate::status::{INVALID, OK};
use wtp_frames::endpoint::{Endpoint, Side};
use wtp_webtransport::connection::Connection;
use wtp_webtransport::connection::words::ConnectionWords;

/// The version of the structs.
pub const ABI: u32 = 1;

// The number in c/include/wtransport.h.
const _: () = prove!(ABI == 1);

/// The largest `max_datagram`.
const MAX_DATAGRAM: u64 = 65_535;

/// The own endpoint: which side it is, what its SETTINGS enable, and its limits.
#[repr(C)]
#[derive(Clone, Copy)]
pub struct WtEndpoint {
    /// 0 for a client and 1 for a server.
    pub side: u8,
    /// 1 if its SETTINGS enable WebTransport, otherwise 0.
    pub webtransport: u8,
    /// 1 if they enable HTTP datagrams, otherwise 0.
    pub datagrams: u8,
    /// 1 if they enable extended CONNECT (RFC 9220, section 3), otherwise 0.
    pub extended: u8,
    /// The largest encoded field section that is read, in bytes.
    pub max_section: u32,
    /// The largest decoded field section: for each field the lengths of its name and its value in
    /// bytes, plus 32 (RFC 9114, section 4.2.2).
    pub max_fields: u64,
    /// The largest datagram in a capsule that is returned, in bytes: at most 65,535.
    pub max_datagram: u64,
    /// 0.
    pub reserved: [u64; 5],
}

/// The state of a connection.
#[repr(C)]
#[derive(Clone, Copy)]
pub struct WtConnection {
    /// What its streams have in common.
    pub words: ConnectionWords,
    /// The largest decoded field section.
    pub max_fields: u64,
    /// The largest datagram in a capsule.
    pub max_datagram: u64,
    /// 0.
    pub reserved: [u64; 5],
}

impl WtConnection {
    // Creates the struct of a connection with these limits.
    pub(crate) fn of(connection: &Connection, max_fields: u64, max_datagram: u64) -> Self
        ensures { result ≡ connection_with connection.now max_fields max_datagram }
    {
        WtConnection {
            words: connection.to_words(),
            max_fields,
            max_datagram,
            reserved: [0; 5],
        }
    }

    // Puts another connection in place of this one, with the same limits.
    pub(crate) fn set(&mut self, connection: &Connection)
        ensures { self.new ≡ with_connection self.old connection.now }
    {
        *self = WtConnection::of(connection, self.max_fields, self.max_datagram);
    }

    // Returns the connection, or `None` if no connection has this struct.
    pub(crate) fn connection(&self) -> Option<Connection>
        ensures { MatchOption result (IsNoConnection self.now) (λ c. HasConnection c self.now) }
    {
        self.static_connection()
    }

    // Returns the same, which has no dynamic table.
    #[tactic(auto, using(crate::proofs::ConnectionLemmas::no_words, crate::proofs::ConnectionLemmas::no_zeros))]
    pub(crate) fn static_connection(&self) -> Option<Connection>
        ensures is { MatchOption result (IsNoConnection self.now) (λ c. HasConnection c self.now) }
        ensures alone { IfSome result (λ c. without_table c ≡ c) }
    {
        if self.reserved != [0; 5] {
            return None;
        }
        Connection::from_words(self.words)
    }
}

impl WtEndpoint {
    // Returns whether this is a struct of this version.
    pub(crate) fn is_valid(&self) -> bool
        ensures { MatchBool result (IsEndpoint self.now) (¬ (IsEndpoint self.now)) }
    {
        self.side <= 1
            && self.webtransport <= 1
            && self.datagrams <= 1
            && self.extended <= 1
            && self.max_datagram <= MAX_DATAGRAM
            && self.reserved == [0; 5]
    }

    // Returns the endpoint.
    pub(crate) fn endpoint(&self) -> Endpoint
        ensures { result ≡ endpoint_of self.now }
    {
        Endpoint {
            side: side_of(self.side),
            webtransport: self.webtransport != 0,
            datagrams: self.datagrams != 0,
            max_section: self.max_section,
        }
    }
}

// Returns the side of a number.
fn side_of(side: u8) -> Side
    ensures { result ≡ side_with side }
{
    if side == 0 {
        Side::Client
    } else {
        Side::Server
    }
}

/// Creates the state of a connection at this endpoint.
///
/// Returns `OK`, or `INVALID` if `abi` is not 1, or if a number of `endpoint` is out of its range
/// or is to be 0 and is not; nothing changes then.
#[unsafe(no_mangle)]
pub extern "C" fn wt_connection_new(
    abi: u32,
    endpoint: &WtEndpoint,
    connection: &mut WtConnection,
) -> i32
    ensures answers { (result ≡ OK) ⊎ (result ≡ INVALID) }
    ensures connection { result ≡ OK → connection.new
        ≡ connection_with
        (connection_of (endpoint_of endpoint.now) (not (endpoint.now.extended == 0)))
        endpoint.now.max_fields endpoint.now.max_datagram }
    ensures valid { result ≡ OK → (abi ≡ ABI) × IsEndpoint endpoint.now }
    ensures invalid { result ≡ INVALID → ((abi ≢ ABI) ⊎ (¬ (IsEndpoint endpoint.now)))
        × (connection.new ≡ connection.old) }
{
    if abi != ABI || !endpoint.is_valid() {
        return INVALID;
    }
    let begun = Connection::new(endpoint.endpoint(), endpoint.extended != 0);
    *connection = WtConnection::of(&begun, endpoint.max_fields, endpoint.max_datagram);
    OK
}

/// Returns 1 if the SETTINGS of the peer, which came, and the own ones allow sessions of
/// WebTransport, and 0 otherwise; or `INVALID` if no connection has `connection`.
#[unsafe(no_mangle)]
pub extern "C" fn wt_connection_allows_sessions(connection: &WtConnection) -> i32
    ensures says { result ≢ INVALID → Says result connection.now allows_sessions }
    ensures invalid { result ≡ INVALID → IsNoConnection connection.now }
{
    match connection.connection() {
        None => INVALID,
        Some(common) => common.allows_sessions() as i32,
    }
}

/// Returns 1 if, at a client, the request on the stream with this ID is not processed by the
/// server, whose GOAWAY names the ID of this request or of one before it: it may be sent again on
/// another connection (RFC 9114, section 5.2). Returns 0 otherwise, or `INVALID` if no connection
/// has `connection`.
#[unsafe(no_mangle)]
pub extern "C" fn wt_connection_unprocessed(connection: &WtConnection, id: u64) -> i32
    ensures says { result ≢ INVALID → Says result connection.now
        (λ c. is_unprocessed_by c.endpoint.side c.goaway id) }
    ensures invalid { result ≡ INVALID → IsNoConnection connection.now }
{
    match connection.connection() {
        None => INVALID,
        Some(common) => common.is_unprocessed(id) as i32,
    }
}
