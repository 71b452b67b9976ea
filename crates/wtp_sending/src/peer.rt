//! What the peer allows.

/// What the peer's SETTINGS allow to be sent. Until they come, each setting has its default (RFC
/// 9114, section 7.2.4.2).
#[derive(Clone, Copy)]
pub struct Peer {
    /// Extended CONNECT requests, by SETTINGS_ENABLE_CONNECT_PROTOCOL (RFC 9220, section 3).
    pub extended_connect: bool,
    /// Sessions of WebTransport, by the settings of its draft.
    pub sessions: bool,
    /// The size of a field section, by SETTINGS_MAX_FIELD_SECTION_SIZE: for each field, the lengths
    /// of its name and its value in bytes, plus 32 (RFC 9114, section 4.2.2).
    pub max_section: u64,
}

impl Peer {
    ghost use Rattle.std.specs.Prelude.{◌≡◌};
    ghost use Rattle.wtp_sending.specs.Message.{default_peer};

    /// Creates what a peer allows by the default values of its settings: sections of any size, and
    /// neither extended CONNECT nor sessions.
    pub fn new() -> Self
        ensures { result ≡ default_peer }
    {
        Peer {
            extended_connect: false,
            sessions: false,
            max_section: u64::MAX,
        }
    }
}
