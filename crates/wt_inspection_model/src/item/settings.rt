//! Settings.
ghost use Rattle.std.specs.Prelude.{◌≡◌, ◌<◌, ◌≤◌, ◌^◌, None, option_map};
ghost use Rattle.vesgrauf_registry.specs.Table.{shown_name};
ghost use Rattle.wt_inspection_model.specs.SettingNames.{draft_setting_name, is_of_draft};
ghost use Rattle.wtp_wire.specs.SettingId.{setting_id_of};

use vesgrauf_registry::row::CName;
use vesgrauf_registry::settings::{Range, find_setting};
use wtp_core::varint::VarInt;
use wtp_wire::settings::SettingId;

/// A setting in a SETTINGS frame (RFC 9114, section 7.2.4).
#[derive(Clone, Copy, Debug, PartialEq, Eq)]
pub struct SettingLine {
    /// The identifier.
    pub id: u64,
    /// The value.
    pub value: u64,
    /// The problem with the setting, if there is one.
    pub flag: Option<SettingIssue>,
}

impl SettingLine {
    /// Returns the setting with this identifier, or `None` if it is unknown. Its `Display` is its
    /// name.
    pub fn setting(&self) -> Option<SettingId>
        ensures known { self.now.id < 2 ^ 62 → result ≡ setting_id_of self.now.id }
        ensures none { 2 ^ 62 ≤ self.now.id → result ≡ None }
    {
        match VarInt::try_from_u64(self.id) {
            Ok(id) => SettingId::parse(id),
            Err(_) => None,
        }
    }
}

impl SettingLine {
    /// Returns the name that a later draft of WebTransport, or a draft of HTTP Datagrams, gives a
    /// setting that [`setting`](SettingLine::setting) does not know. `None` if none does.
    pub fn draft_name(&self) -> Option<&'static str>
        ensures { option_map (λ text. text.now) result ≡ draft_setting_name self.now.id }
    {
        match find_setting(self.id) {
            Some(row) if is_of_draft(row.c_name, row.columns.range) => Some(row.name),
            _ => None,
        }
    }
}

// Returns whether only a draft has a setting with this constant in C and this range.
fn is_of_draft(c_name: CName, range: Range) -> bool
    ensures { result ≡ is_of_draft (shown_name c_name) range }
{
    match (c_name, range) {
        (_, Range::Http2) => false,
        (CName::Absent, _) => true,
        _ => false,
    }
}

/// A problem with a setting.
#[derive(Clone, Copy, Debug, PartialEq, Eq)]
pub enum SettingIssue {
    /// The identifier is reserved from HTTP/2 and must not be sent (RFC 9114, section 7.2.4.1).
    Reserved,
    /// An earlier setting has the same identifier (RFC 9114, section 7.2.4).
    Repeated,
    /// The value is neither 0 nor 1, of a setting that has no other (RFC 8441, section 3; RFC 9220,
    /// section 3; RFC 9297, section 2.1.1).
    Value,
}
