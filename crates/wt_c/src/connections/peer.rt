//! The settings of the peer as values, and connections of clients that remember them (RFC 9114,
//! section 7.2.4.2).
ghost use Rattle.std.specs.Prelude.{◌≡◌, ◌≢◌, ◌⊎◌, ◌==◌, ◌<◌, ◌^◌, ◌-◌, ℕ, not, Some, MatchBool};
ghost use Rattle.wtp_connection.specs.declared.settings.PeerSettings.{PeerSettings};
ghost use Rattle.wtp_webtransport.specs.declared.connection.Connection.{Connection};
ghost use Rattle.wtp_webtransport.specs.Streams.{without_early_data};
ghost use Rattle.wt_c.specs.Connections.{endpoint_of, IsEndpoint, connection_with, with_connection, HasConnection, IsNoConnection};
ghost use Rattle.wtp_frames.specs.Words.{flag_number};
ghost use Rattle.wt_c.specs.PeerSettings.{limit_at as limit_at_is, peer_with, peer_at, begun_with, IsLimit, AreValues, IsPeer};

use crate::connections::{ABI, WtConnection, WtEndpoint};
use crate::status::{INVALID, OK};
use wtp_connection::settings::PeerSettings;
use wtp_core::varint::VarInt;
use wtp_frames::endpoint::Endpoint;
use wtp_webtransport::connection::Connection;

/// The settings of the peer: the value of each, or its default.
#[repr(C)]
#[derive(Clone, Copy)]
pub struct WtPeerSettings {
    /// SETTINGS_QPACK_MAX_TABLE_CAPACITY (0x01), by default 0.
    pub qpack_max_table_capacity: u64,
    /// SETTINGS_MAX_FIELD_SECTION_SIZE (0x06), or `u64::MAX` if there is no limit.
    pub max_field_section_size: u64,
    /// SETTINGS_QPACK_BLOCKED_STREAMS (0x07), by default 0.
    pub qpack_blocked_streams: u64,
    /// SETTINGS_WEBTRANSPORT_MAX_SESSIONS (0xc671706a), by default 0.
    pub webtransport_max_sessions: u64,
    /// SETTINGS_WT_MAX_SESSIONS (0x14e9cd29), by default 0.
    pub wt_max_sessions: u64,
    /// SETTINGS_ENABLE_CONNECT_PROTOCOL (0x08): 1 or 0.
    pub enable_connect_protocol: u8,
    /// SETTINGS_H3_DATAGRAM (0x33): 1 or 0.
    pub h3_datagram: u8,
    /// SETTINGS_ENABLE_WEBTRANSPORT (0x2b603742): 1 or 0.
    pub enable_webtransport: u8,
    /// 1 if SETTINGS of the peer came, otherwise 0.
    pub came: u8,
    /// 0.
    pub reserved_half: u32,
    /// 0.
    pub reserved: [u64; 2],
}

impl WtPeerSettings {
    // Creates the struct of these settings.
    fn of(settings: PeerSettings, came: u8) -> Self
        ensures { result ≡ peer_with settings came }
    {
        WtPeerSettings {
            qpack_max_table_capacity: settings.qpack_max_table_capacity,
            max_field_section_size: settings.max_field_section_size.unwrap_or(u64::MAX),
            qpack_blocked_streams: settings.qpack_blocked_streams,
            webtransport_max_sessions: settings.webtransport_max_sessions,
            wt_max_sessions: settings.wt_max_sessions,
            enable_connect_protocol: settings.enable_connect_protocol as u8,
            h3_datagram: settings.h3_datagram as u8,
            enable_webtransport: settings.enable_webtransport as u8,
            came,
            reserved_half: 0,
            reserved: [0; 2],
        }
    }

    // Returns the settings.
    fn settings(&self) -> PeerSettings
        ensures { result ≡ peer_at self.now }
    {
        PeerSettings {
            qpack_max_table_capacity: self.qpack_max_table_capacity,
            max_field_section_size: limit_at(self.max_field_section_size),
            qpack_blocked_streams: self.qpack_blocked_streams,
            enable_connect_protocol: self.enable_connect_protocol != 0,
            h3_datagram: self.h3_datagram != 0,
            enable_webtransport: self.enable_webtransport != 0,
            webtransport_max_sessions: self.webtransport_max_sessions,
            wt_max_sessions: self.wt_max_sessions,
        }
    }

    // Returns whether its numbers are values of settings, or no limit.
    fn has_values(&self) -> bool
        ensures { MatchBool result (AreValues self.now) (¬ (AreValues self.now)) }
    {
        is_value(self.qpack_max_table_capacity)
            && is_limit(self.max_field_section_size)
            && is_value(self.qpack_blocked_streams)
            && is_value(self.webtransport_max_sessions)
            && is_value(self.wt_max_sessions)
    }

    // Returns whether this is a struct of this version.
    fn is_valid(&self) -> bool
        ensures { MatchBool result (IsPeer self.now) (¬ (IsPeer self.now)) }
    {
        self.has_values()
            && self.enable_connect_protocol <= 1
            && self.h3_datagram <= 1
            && self.enable_webtransport <= 1
            && self.came <= 1
            && self.reserved_half == 0
            && self.reserved == [0; 2]
    }
}

// Returns whether a setting may have this value.
fn is_value(number: u64) -> bool
    ensures { MatchBool result (number < 2 ^ 62) (¬ (number < 2 ^ 62)) }
{
    VarInt::try_from_u64(number).is_ok()
}

// Returns whether a number is a limit, or that there is none.
fn is_limit(number: u64) -> bool
    ensures { MatchBool result (IsLimit number) (¬ (IsLimit number)) }
{
    number == u64::MAX || is_value(number)
}

// Returns the limit of a number, of which the largest is none.
fn limit_at(number: u64) -> Option<u64>
    ensures { result ≡ limit_at_is number }
{
    if number == u64::MAX {
        None
    } else {
        Some(number)
    }
}

/// Returns the settings of the peer. Until its SETTINGS come each one has its default (RFC 9114,
/// section 7.2.4.2), or is the one remembered (`wt_connection_resuming`).
///
/// Returns `OK` with the settings, or `INVALID` if no connection has `connection`; nothing changes
/// then.
#[unsafe(no_mangle)]
#[tactic(auto, using(crate::proofs::PeerLemmas::came_is))]
pub extern "C" fn wt_connection_settings(
    connection: &WtConnection,
    settings: &mut WtPeerSettings,
) -> i32
    ensures answers { (result ≡ OK) ⊎ (result ≡ INVALID) }
    ensures settings { result ≡ OK → (c : Connection) × HasConnection c connection.now
        × (settings.new ≡ peer_with c.streams.peer (flag_number c.configured)) }
    ensures invalid { result ≡ INVALID → IsNoConnection connection.now
        × (settings.new ≡ settings.old) }
{
    match connection.connection() {
        None => INVALID,
        Some(common) => {
            *settings = WtPeerSettings::of(common.peer_settings(), connection.words.configured);
            OK
        }
    }
}

// Begins a connection, with what is remembered if SETTINGS came.
fn begin(endpoint: Endpoint, extended: bool, remembered: &WtPeerSettings) -> Connection
    ensures { result ≡ begun_with endpoint extended remembered.now }
{
    if remembered.came == 0 {
        return Connection::new(endpoint, extended);
    }
    let settings = remembered.settings();
    Connection::resuming(endpoint, extended, &settings)
}

/// Creates the state of the connection of a client that resumes a session of TLS and sends 0-RTT
/// data. `remembered` are the settings of the server in that session, as `wt_connection_settings`
/// returned them: they are its settings until its SETTINGS come, which must keep them (RFC 9114,
/// section 7.2.4.2). If `remembered.came` is 0 nothing is remembered, whatever its other numbers are:
/// this is `wt_connection_new`, as it is at a server.
///
/// Returns `OK`, or `INVALID` if `abi` is not 1, or if a number of `endpoint` or of `remembered` is
/// out of its range or is to be 0 and is not; nothing changes then.
#[unsafe(no_mangle)]
pub extern "C" fn wt_connection_resuming(
    abi: u32,
    endpoint: &WtEndpoint,
    remembered: &WtPeerSettings,
    connection: &mut WtConnection,
) -> i32
    ensures answers { (result ≡ OK) ⊎ (result ≡ INVALID) }
    ensures connection { result ≡ OK → connection.new
        ≡ connection_with (begun_with (endpoint_of endpoint.now)
        (not (endpoint.now.extended == 0)) remembered.now)
        endpoint.now.max_fields endpoint.now.max_datagram }
    ensures valid { result ≡ OK → (abi ≡ ABI) × IsEndpoint endpoint.now × IsPeer remembered.now }
    ensures invalid { result ≡ INVALID
        → ((abi ≢ ABI) ⊎ ((¬ (IsEndpoint endpoint.now)) ⊎ (¬ (IsPeer remembered.now))))
        × (connection.new ≡ connection.old) }
{
    if abi != ABI || !endpoint.is_valid() || !remembered.is_valid() {
        return INVALID;
    }
    let begun = begin(endpoint.endpoint(), endpoint.extended != 0, remembered);
    *connection = WtConnection::of(&begun, endpoint.max_fields, endpoint.max_datagram);
    OK
}

/// Says that the server did not accept 0-RTT: until its SETTINGS come each setting has its default
/// again, and they need not keep what is remembered. Nothing changes after its SETTINGS, and if no
/// session is resumed.
///
/// Returns `OK`, or `INVALID` if no connection has `connection`; nothing changes then.
#[unsafe(no_mangle)]
pub extern "C" fn wt_early_data_refused(connection: &mut WtConnection) -> i32
    ensures answers { (result ≡ OK) ⊎ (result ≡ INVALID) }
    ensures refused { result ≡ OK → (c : Connection) × HasConnection c connection.old
        × (with_connection connection.old (without_early_data c) ≡ connection.new) }
    ensures invalid { result ≡ INVALID → IsNoConnection connection.old
        × (connection.new ≡ connection.old) }
{
    let Some(mut common) = connection.connection() else {
        return INVALID;
    };
    common.early_data_refused();
    connection.set(&common);
    OK
}

/// The settings that `wt_connection_settings` returns are those that `wt_connection_resuming` takes, as
/// they were. No setting has the value 2^64 - 1, which stands for no limit: each is below 2^62 (RFC 9000,
/// section 16).
#[tactic(auto, using(crate::proofs::PeerLemmas::settings_back))]
pub fn settings_are_remembered()
    ensures { (v : PeerSettings) (came : ℕ) → v.max_field_section_size ≢ Some (2 ^ 64 - 1)
        → peer_at (peer_with v came) ≡ v }
{}
