//! The tables agree with the definitions of connections, in `wtp_connection` and
//! `wtp_webtransport`.
ghost use Rattle.std.specs.Prelude.{◌≡◌, ℕ, []};
ghost use Rattle.vesgrauf_registry.specs.Capsules.{capsule_of};
ghost use Rattle.vesgrauf_registry.specs.Settings.{setting_columns};
ghost use Rattle.vesgrauf_registry.specs.Streams.{stream_of};
ghost use Rattle.vesgrauf_registry_agreement.specs.Connections.{IsDefault, IsOff, critical_by, is_supported_by, setting_default};
ghost use Rattle.wtp_connection.specs.Opening.{is_for_critical, type_purpose};
ghost use Rattle.wtp_connection.specs.Rows.{is_flag_by, purpose_by};
ghost use Rattle.wtp_connection.specs.Settings.{is_flag, is_understood, values_of, with_defaults};
ghost use Rattle.wtp_webtransport.specs.CapsuleRows.{sort_in};
ghost use Rattle.wtp_webtransport.specs.Capsules.{sort_of};

/// Streams: the purpose of a unidirectional stream follows from what its row says, and so does
/// whether it must not be closed. The type of a WebTransport stream is unknown where WebTransport
/// is not enabled.
pub fn stream_purposes_agree()
    ensures purpose { (n : ℕ) → type_purpose n ≡ purpose_by (stream_of n) }
    ensures critical { (n : ℕ) → is_for_critical (type_purpose n) ≡ critical_by (stream_of n) }
{}

/// Settings: a connection uses exactly those that are supported, checks exactly the flags among
/// them, and has their defaults before SETTINGS come.
pub fn peer_settings_agree()
    ensures supported { (n : ℕ) → is_understood n ≡ is_supported_by (setting_columns n) }
    ensures flag { (n : ℕ) → is_flag n ≡ is_flag_by (setting_columns n) }
    ensures capacity { IsDefault 0x01 (with_defaults (values_of [])).qpack_max_table_capacity }
    ensures blocked { IsDefault 0x07 (with_defaults (values_of [])).qpack_blocked_streams }
    ensures sessions { IsDefault 0xc671706a
        (with_defaults (values_of [])).webtransport_max_sessions }
    ensures later_sessions { IsDefault 0x14e9cd29 (with_defaults (values_of [])).wt_max_sessions }
    ensures connect { IsOff 0x08 (with_defaults (values_of [])).enable_connect_protocol }
    ensures datagram { IsOff 0x33 (with_defaults (values_of [])).h3_datagram }
    ensures webtransport { IsOff 0x2b603742 (with_defaults (values_of [])).enable_webtransport }
    ensures section { setting_default 0x06 ≡ (with_defaults (values_of [])).max_field_section_size }
{}

/// Capsules: what is done with the value of a capsule follows from its row.
pub fn session_capsules_agree()
    ensures { (n len : ℕ) → sort_of n len ≡ sort_in (capsule_of n) len }
{}
