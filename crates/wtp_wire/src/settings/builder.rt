//! A builder for settings.
ghost use Rattle.std.specs.Prelude.{◌≡◌, true, OnErr, IfOk, None};

use crate::settings::{Settings, setting_ids};
use std::alloc::AllocError;
use std::marker::Model;
use wtp_core::varint::VarInt;

/// Builds [`Settings`], one setting at a time.
#[derive(Debug, Drop)]
pub struct SettingsBuilder {
    settings: Settings,
}

impl Model for SettingsBuilder {
    ghost use Rattle.std.specs.Prelude.{ℕ, List};

    ghost Value = { List (ℕ × ℕ) };

    ghost view = { λ b. b.settings };
}

#[tactic(auto, unfolding(crate::specs::SettingId::setting_id_of))]
impl SettingsBuilder {
    ghost use Rattle.wtp_wire.specs.SettingId.{is_setting};
    ghost use Rattle.wtp_wire.specs.Settings.{value_at, with_setting};

    /// Creates a builder that starts with the given settings.
    pub(crate) fn new(settings: Settings) -> Self
        ensures { result ≡ settings }
    {
        SettingsBuilder { settings }
    }

    /// Sets the value of an identifier.
    fn set(mut self, number: VarInt, value: VarInt) -> Result<Self, AllocError>
        requires { is_setting number ≡ true }
        ensures ok { IfOk result (λ b. b ≡ with_setting self number value) }
        ensures err { OnErr result (value_at self number ≡ None) }
    {
        self.settings.set(number, value)?;
        Ok(self)
    }

    /// Sets the maximum size of the QPACK dynamic table, in bytes (RFC 9204, section 5).
    ///
    /// Returns `AllocError` if allocation failed; the builder is then dropped. This cannot happen
    /// if the setting was set before.
    pub fn qpack_max_table_capacity(self, value: VarInt) -> Result<Self, AllocError>
        ensures ok { IfOk result (λ b. b ≡ with_setting self 0x01 value) }
        ensures err { OnErr result (value_at self 0x01 ≡ None) }
    {
        self.set(setting_ids::SETTINGS_QPACK_MAX_TABLE_CAPACITY, value)
    }

    /// Sets the maximum size of a field section, in bytes (RFC 9114, section 7.2.4.1).
    ///
    /// Returns `AllocError` if allocation failed; the builder is then dropped. This cannot happen
    /// if the setting was set before.
    pub fn max_field_section_size(self, value: VarInt) -> Result<Self, AllocError>
        ensures ok { IfOk result (λ b. b ≡ with_setting self 0x06 value) }
        ensures err { OnErr result (value_at self 0x06 ≡ None) }
    {
        self.set(setting_ids::SETTINGS_MAX_FIELD_SECTION_SIZE, value)
    }

    /// Sets the maximum number of streams that QPACK may block (RFC 9204, section 5).
    ///
    /// Returns `AllocError` if allocation failed; the builder is then dropped. This cannot happen
    /// if the setting was set before.
    pub fn qpack_blocked_streams(self, value: VarInt) -> Result<Self, AllocError>
        ensures ok { IfOk result (λ b. b ≡ with_setting self 0x07 value) }
        ensures err { OnErr result (value_at self 0x07 ≡ None) }
    {
        self.set(setting_ids::SETTINGS_QPACK_BLOCKED_STREAMS, value)
    }

    /// Announces support for extended CONNECT (RFC 9220, section 3).
    ///
    /// Returns `AllocError` if allocation failed; the builder is then dropped. This cannot happen
    /// if the setting was set before.
    pub fn enable_connect_protocol(self) -> Result<Self, AllocError>
        ensures ok { IfOk result (λ b. b ≡ with_setting self 0x08 1) }
        ensures err { OnErr result (value_at self 0x08 ≡ None) }
    {
        self.set(
            setting_ids::SETTINGS_ENABLE_CONNECT_PROTOCOL,
            VarInt::from_u32(1),
        )
    }

    /// Announces support for WebTransport (draft-ietf-webtrans-http3-02, section 3.1).
    ///
    /// Returns `AllocError` if allocation failed; the builder is then dropped. This cannot happen
    /// if the setting was set before.
    pub fn enable_webtransport(self) -> Result<Self, AllocError>
        ensures ok { IfOk result (λ b. b ≡ with_setting self 0x2b60_3742 1) }
        ensures err { OnErr result (value_at self 0x2b60_3742 ≡ None) }
    {
        self.set(
            setting_ids::SETTINGS_ENABLE_WEBTRANSPORT,
            VarInt::from_u32(1),
        )
    }

    /// Announces support for HTTP datagrams (RFC 9297, section 2.1.1).
    ///
    /// Returns `AllocError` if allocation failed; the builder is then dropped. This cannot happen
    /// if the setting was set before.
    pub fn enable_h3_datagrams(self) -> Result<Self, AllocError>
        ensures ok { IfOk result (λ b. b ≡ with_setting self 0x33 1) }
        ensures err { OnErr result (value_at self 0x33 ≡ None) }
    {
        self.set(setting_ids::SETTINGS_H3_DATAGRAM, VarInt::from_u32(1))
    }

    /// Sets the maximum number of concurrent WebTransport sessions (draft-ietf-webtrans-http3-07).
    ///
    /// Returns `AllocError` if allocation failed; the builder is then dropped. This cannot happen
    /// if the setting was set before.
    pub fn webtransport_max_sessions(self, value: VarInt) -> Result<Self, AllocError>
        ensures ok { IfOk result (λ b. b ≡ with_setting self 0xc671_706a value) }
        ensures err { OnErr result (value_at self 0xc671_706a ≡ None) }
    {
        self.set(setting_ids::SETTINGS_WEBTRANSPORT_MAX_SESSIONS, value)
    }

    /// Returns the settings set so far.
    pub fn build(self) -> Settings
        ensures { result ≡ self }
    {
        self.settings
    }
}
