//! The settings of the peer in numbers of a fixed size, as a caller in C keeps them.
ghost use Rattle.std.specs.Prelude.{◌≡◌};
ghost use Rattle.wtp_connection.specs.Words.{settings_words, settings_at};

use crate::settings::PeerSettings;
use wtp_frames::reader::words::{OptionWords, flag_at, flag_of};

/// [`PeerSettings`].
#[repr(C)]
#[derive(Clone, Copy, PartialEq, Eq)]
pub struct SettingsWords {
    /// SETTINGS_QPACK_MAX_TABLE_CAPACITY.
    pub qpack_max_table_capacity: u64,
    /// SETTINGS_MAX_FIELD_SECTION_SIZE, if there is a limit.
    pub max_field_section_size: OptionWords,
    /// SETTINGS_QPACK_BLOCKED_STREAMS.
    pub qpack_blocked_streams: u64,
    /// SETTINGS_WEBTRANSPORT_MAX_SESSIONS.
    pub webtransport_max_sessions: u64,
    /// SETTINGS_WT_MAX_SESSIONS.
    pub wt_max_sessions: u64,
    /// SETTINGS_ENABLE_CONNECT_PROTOCOL: 1 or 0.
    pub enable_connect_protocol: u8,
    /// SETTINGS_H3_DATAGRAM: 1 or 0.
    pub h3_datagram: u8,
    /// SETTINGS_ENABLE_WEBTRANSPORT: 1 or 0.
    pub enable_webtransport: u8,
    /// 0.
    pub reserved: u8,
    /// 0.
    pub reserved_word: u32,
}

impl PeerSettings {
    /// Returns the words of the settings.
    pub fn to_words(self) -> SettingsWords
        ensures { result ≡ settings_words self }
    {
        SettingsWords {
            qpack_max_table_capacity: self.qpack_max_table_capacity,
            max_field_section_size: OptionWords::of(self.max_field_section_size),
            qpack_blocked_streams: self.qpack_blocked_streams,
            webtransport_max_sessions: self.webtransport_max_sessions,
            wt_max_sessions: self.wt_max_sessions,
            enable_connect_protocol: flag_of(self.enable_connect_protocol),
            h3_datagram: flag_of(self.h3_datagram),
            enable_webtransport: flag_of(self.enable_webtransport),
            reserved: 0,
            reserved_word: 0,
        }
    }

    // Creates the settings of these words. Other words than those of settings give any ones.
    pub(crate) fn from_words(words: SettingsWords) -> Self
        ensures { result ≡ settings_at words }
    {
        PeerSettings {
            qpack_max_table_capacity: words.qpack_max_table_capacity,
            max_field_section_size: words.max_field_section_size.to_option(),
            qpack_blocked_streams: words.qpack_blocked_streams,
            enable_connect_protocol: flag_at(words.enable_connect_protocol),
            h3_datagram: flag_at(words.h3_datagram),
            enable_webtransport: flag_at(words.enable_webtransport),
            webtransport_max_sessions: words.webtransport_max_sessions,
            wt_max_sessions: words.wt_max_sessions,
        }
    }
}
