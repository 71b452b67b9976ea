//! Sessions of TLS that a client resumes with 0-RTT, and SETTINGS that come then (RFC 9114, section
//! 7.2.4.2; RFC 9204, section 3.2.3; RFC 9297, section 2.1.1).
ghost use Rattle.std.specs.Prelude.{◌≡◌, Ok, Err, MatchResult};
ghost use Rattle.wtp_connection.specs.Streams.{resuming_of, without_resumption, configured, received_settings};
ghost use Rattle.wtp_connection.specs.Resumption.{loses_capacity as loses_capacity_is, loses_limit as loses_limit_is, loses_limits as loses_limits_is, after_resumption};

use crate::connection::Connection;
use crate::fault::Fault;
use crate::settings::PeerSettings;
use wtp_frames::endpoint::{Endpoint, Side};

impl Connection {
    /// Creates the connection of a client that resumes a session and sends 0-RTT data. `remembered` are
    /// the settings of the server in that session: they are its settings until its SETTINGS come, which
    /// must keep them (RFC 9114, section 7.2.4.2).
    ///
    /// If the server does not accept 0-RTT, call [`early_data_refused`](Self::early_data_refused). At a
    /// server this is [`new`](Self::new).
    pub fn resuming(endpoint: Endpoint, remembered: &PeerSettings) -> Self
        ensures { result ≡ resuming_of endpoint remembered.now }
    {
        let mut connection = Connection::new(endpoint);
        match endpoint.side {
            Side::Client => {
                connection.peer = *remembered;
                connection.resumed = true;
            }
            Side::Server => {}
        }
        connection
    }

    /// Says that the server did not accept 0-RTT: until its SETTINGS come each setting has its default
    /// again, and they need not keep what is remembered. Nothing changes after its SETTINGS, and if no
    /// session is resumed.
    pub fn early_data_refused(&mut self)
        ensures { self.new ≡ without_resumption self.old }
    {
        if self.resumed {
            self.peer = PeerSettings::new();
            self.resumed = false;
        }
    }

    // Reads the payload of SETTINGS, which are the peer's settings from then on unless they have an error.
    pub(super) fn configure(&mut self, payload: &[u8]) -> Result<PeerSettings, Fault>
        ensures settings { result ≡ received_settings self.old payload.now }
        ensures connection { MatchResult result (λ v. self.new ≡ configured self.old v)
            (λ _. self.new ≡ self.old) }
    {
        let mut settings = PeerSettings::read(payload)?;
        if self.resumed {
            settings = settings.keeping(&self.peer)?;
        }
        self.peer = settings;
        self.resumed = false;
        Ok(settings)
    }
}

impl PeerSettings {
    // Returns these settings if they keep what is remembered, or the error.
    fn keeping(self, remembered: &PeerSettings) -> Result<Self, Fault>
        ensures { result ≡ after_resumption remembered.now self }
    {
        if self.loses_capacity(remembered) {
            return Err(Fault::Capacity);
        }
        if self.loses_limits(remembered) {
            return Err(Fault::Settings);
        }
        Ok(self)
    }

    // Returns whether the capacity of the dynamic table was not 0 and is another one.
    fn loses_capacity(self, remembered: &PeerSettings) -> bool
        ensures { result ≡ loses_capacity_is remembered.now self }
    {
        let capacity = remembered.qpack_max_table_capacity;
        capacity != 0 && self.qpack_max_table_capacity != capacity
    }

    // Returns whether another limit is reduced, or something is no longer supported.
    fn loses_limits(self, remembered: &PeerSettings) -> bool
        ensures { result ≡ loses_limits_is remembered.now self }
    {
        loses_limit(
            remembered.max_field_section_size,
            self.max_field_section_size,
        ) || self.qpack_blocked_streams < remembered.qpack_blocked_streams
            || (remembered.enable_connect_protocol && !self.enable_connect_protocol)
            || (remembered.h3_datagram && !self.h3_datagram)
            || (remembered.enable_webtransport && !self.enable_webtransport)
            || self.webtransport_max_sessions < remembered.webtransport_max_sessions
            || self.wt_max_sessions < remembered.wt_max_sessions
    }
}

// Returns whether a limit is reduced or left out. `None`: there is no limit.
fn loses_limit(remembered: Option<u64>, now: Option<u64>) -> bool
    ensures { result ≡ loses_limit_is remembered now }
{
    match (remembered, now) {
        (None, None) => false,
        (None, Some(_)) | (Some(_), None) => true,
        (Some(before), Some(after)) => after < before,
    }
}
