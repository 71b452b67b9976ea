//! The settings of the peer (RFC 9114, section 7.2.4; RFC 9204, section 5; RFC 9220, section 3; RFC
//! 9297, section 2.1.1; WebTransport over HTTP/3).
ghost use Rattle.std.specs.Prelude.{◌≡◌, [], None};
ghost use Rattle.wtp_connection.specs.Rows.{is_flag_row};
ghost use Rattle.wtp_connection.specs.Settings.{values_of, stored as stored_is, held as held_is, taken, with_item, is_flag as is_flag_is, is_on as is_on_is, with_defaults, settings_in};

pub mod words;

use crate::fault::Fault;
use vesgrauf_registry::settings::{Range, find_setting};
use wtp_core::error::ErrorCode;
use wtp_frames::fault::Fault as StreamFault;
use wtp_wire::settings::{SettingPair, SettingPairs};

/// The settings of the peer: the value of each, which is its default until SETTINGS come.
#[derive(Clone, Copy, Debug)]
pub struct PeerSettings {
    /// SETTINGS_QPACK_MAX_TABLE_CAPACITY (0x01): the largest capacity of the peer's dynamic table,
    /// in bytes (RFC 9204, section 5). By default 0.
    pub qpack_max_table_capacity: u64,
    /// SETTINGS_MAX_FIELD_SECTION_SIZE (0x06): the largest field section that the peer accepts, in
    /// bytes (RFC 9114, section 7.2.4.1). By default there is no limit.
    pub max_field_section_size: Option<u64>,
    /// SETTINGS_QPACK_BLOCKED_STREAMS (0x07): how many streams may be blocked at the peer (RFC
    /// 9204, section 5). By default 0.
    pub qpack_blocked_streams: u64,
    /// SETTINGS_ENABLE_CONNECT_PROTOCOL (0x08): extended CONNECT is supported (RFC 9220, section
    /// 3). By default it is not.
    pub enable_connect_protocol: bool,
    /// SETTINGS_H3_DATAGRAM (0x33): datagrams are supported (RFC 9297, section 2.1.1). By default
    /// they are not.
    pub h3_datagram: bool,
    /// SETTINGS_ENABLE_WEBTRANSPORT (0x2b603742): WebTransport is supported
    /// (draft-ietf-webtrans-http3-02, section 3.1). By default it is not.
    pub enable_webtransport: bool,
    /// SETTINGS_WEBTRANSPORT_MAX_SESSIONS (0xc671706a): how many sessions may be open at once
    /// (draft-ietf-webtrans-http3-07). By default 0.
    pub webtransport_max_sessions: u64,
    /// SETTINGS_WT_MAX_SESSIONS (0x14e9cd29): the same in later drafts. By default 0.
    pub wt_max_sessions: u64,
}

/// The values that the settings so far have, if they have one.
#[derive(Clone, Copy)]
struct Values {
    qpack_max_table_capacity: Option<u64>,
    max_field_section_size: Option<u64>,
    qpack_blocked_streams: Option<u64>,
    enable_connect_protocol: Option<u64>,
    h3_datagram: Option<u64>,
    enable_webtransport: Option<u64>,
    webtransport_max_sessions: Option<u64>,
    wt_max_sessions: Option<u64>,
}

impl PeerSettings {
    /// Creates the settings of a peer before its SETTINGS come: the defaults.
    pub fn new() -> Self
        ensures { result ≡ with_defaults (values_of []) }
    {
        Values::new().with_defaults()
    }

    /// Reads the payload of a SETTINGS frame. It does not allocate. Unknown and reserved identifiers
    /// are ignored; `wtp_wire::settings::SettingPairs` returns them.
    ///
    /// # Errors
    ///
    /// The first one in byte order: `Frame` if an identifier or a value is truncated. `Settings`
    /// for an identifier of HTTP/2 (0x00, 0x02 to 0x05), for a repeated one of these settings, and
    /// for a value other than 0 and 1 of 0x08, 0x33 and 0x2b603742 (RFC 9114, section 7.2.4; RFC
    /// 8441, section 3; RFC 9297, section 2.1.1). WebTransport without datagrams is no error; a
    /// session needs both.
    pub fn read(payload: &[u8]) -> Result<Self, Fault>
        ensures { result ≡ settings_in payload.now }
    {
        let mut values = Values::new();
        let mut pairs = SettingPairs::new(payload);
        'pairs: while let Some(item) = pairs.next() {
            values = values.with_item(item)?;
        }
        Ok(values.with_defaults())
    }
}

impl Values {
    // Returns that there are no values.
    fn new() -> Self
        ensures { result ≡ values_of [] }
    {
        Values {
            qpack_max_table_capacity: None,
            max_field_section_size: None,
            qpack_blocked_streams: None,
            enable_connect_protocol: None,
            h3_datagram: None,
            enable_webtransport: None,
            webtransport_max_sessions: None,
            wt_max_sessions: None,
        }
    }

    // Adds the next item of a payload.
    fn with_item(self, item: Result<SettingPair, ErrorCode>) -> Result<Self, Fault>
        ensures { result ≡ with_item self item }
    {
        match item {
            Ok(pair) => self.with(pair.id.into_inner(), pair.value.into_inner()),
            Err(ErrorCode::Frame) => Err(Fault::Stream(StreamFault::Frame)),
            Err(_) => Err(Fault::Settings),
        }
    }

    // Adds the value of a setting.
    fn with(self, id: u64, value: u64) -> Result<Self, Fault>
        ensures { result ≡ taken self id value }
    {
        if is_flag(id) && value > 1 {
            return Err(Fault::Settings);
        }
        match self.held(id) {
            Some(_) => Err(Fault::Settings),
            None => Ok(self.stored(id, value)),
        }
    }

    // Returns the value of this setting.
    fn held(self, id: u64) -> Option<u64>
        ensures { result ≡ held_is self id }
    {
        match id {
            0x01 => self.qpack_max_table_capacity,
            0x06 => self.max_field_section_size,
            0x07 => self.qpack_blocked_streams,
            0x08 => self.enable_connect_protocol,
            0x33 => self.h3_datagram,
            0x2b60_3742 => self.enable_webtransport,
            0xc671_706a => self.webtransport_max_sessions,
            0x14e9_cd29 => self.wt_max_sessions,
            _ => None,
        }
    }

    // Returns these values with this one.
    fn stored(self, id: u64, value: u64) -> Self
        ensures { result ≡ stored_is self id value }
    {
        let set = Some(value);
        match id {
            0x01 => Values {
                qpack_max_table_capacity: set,
                ..self
            },
            0x06 => Values {
                max_field_section_size: set,
                ..self
            },
            0x07 => Values {
                qpack_blocked_streams: set,
                ..self
            },
            0x08 => Values {
                enable_connect_protocol: set,
                ..self
            },
            0x33 => Values {
                h3_datagram: set,
                ..self
            },
            0x2b60_3742 => Values {
                enable_webtransport: set,
                ..self
            },
            0xc671_706a => Values {
                webtransport_max_sessions: set,
                ..self
            },
            0x14e9_cd29 => Values {
                wt_max_sessions: set,
                ..self
            },
            _ => self,
        }
    }

    // Returns the value of each setting, or its default.
    fn with_defaults(self) -> PeerSettings
        ensures { result ≡ with_defaults self }
    {
        PeerSettings {
            qpack_max_table_capacity: self.qpack_max_table_capacity.unwrap_or(0),
            max_field_section_size: self.max_field_section_size,
            qpack_blocked_streams: self.qpack_blocked_streams.unwrap_or(0),
            enable_connect_protocol: is_on(self.enable_connect_protocol),
            h3_datagram: is_on(self.h3_datagram),
            enable_webtransport: is_on(self.enable_webtransport),
            webtransport_max_sessions: self.webtransport_max_sessions.unwrap_or(0),
            wt_max_sessions: self.wt_max_sessions.unwrap_or(0),
        }
    }
}

// Returns whether the value of this setting is 0 or 1. The row of each setting that has a value here is
// found when this is compiled, since its number is a constant.
#[tactic(auto, using(crate::proofs::RowLemmas::flag_is))]
fn is_flag(id: u64) -> bool
    ensures { result ≡ is_flag_is id }
{
    match id {
        0x01 => is_flag_row(0x01),
        0x06 => is_flag_row(0x06),
        0x07 => is_flag_row(0x07),
        0x08 => is_flag_row(0x08),
        0x33 => is_flag_row(0x33),
        0x2b60_3742 => is_flag_row(0x2b60_3742),
        0xc671_706a => is_flag_row(0xc671_706a),
        0x14e9_cd29 => is_flag_row(0x14e9_cd29),
        _ => false,
    }
}

// Returns whether this is a setting whose value is used, and is 0 or 1.
fn is_flag_row(id: u64) -> bool
    ensures { result ≡ is_flag_row id }
{
    match find_setting(id) {
        Some(row) => row.columns.supported && matches!(row.columns.range, Range::Flag),
        None => false,
    }
}

// Returns whether the value is 1.
fn is_on(value: Option<u64>) -> bool
    ensures { result ≡ is_on_is value }
{
    value == Some(1)
}
