//! Settings (RFC 9114, section 7.2.4).
ghost use Rattle.std.specs.Prelude.{◌≡◌, ◌<◌, ◌^◌, length, not, Ok, IfOk};
ghost use Rattle.wtp_wire.specs.SettingId.{is_reserved};
ghost use Rattle.wtp_wire.specs.Settings.{AnswersSettings, settings_in};
ghost use Rattle.wt_inspection.specs.Recording.{AfterSettings, HasFault};
ghost use Rattle.wt_inspection.specs.SettingLines.{AreSettings, flag_of, is_bad_value, is_flag};

use crate::reading::{Next, Reading, Then, fault};
use std::alloc::{AllocError, Global};
use std::borrow::CowSlice;
use std::collections::BTreeSet;
use vesgrauf_registry::settings::{Range, find_setting};
use wt_inspection_model::item::{Rule, SettingIssue, SettingLine};
use wtp_core::error::{ErrorCode, Refused};
use wtp_core::varint::VarInt;
use wtp_wire::frame::Frame;
use wtp_wire::head::{FirstPair, first_pair};
use wtp_wire::settings::{SettingId, Settings};

/// Returns the settings of a payload in their order, up to one that is cut.
pub(crate) fn read_settings(alloc: Global, bytes: &[u8]) -> Result<Vec<SettingLine>, AllocError>
    ensures { IfOk result (λ lines. AreSettings bytes.now lines.items) }
{
    let mut lines = Vec::new(alloc);
    let mut seen = BTreeSet::new(alloc);
    let mut rest = bytes;
    'settings: loop {
        let Some(pair) = first_pair(rest) else {
            return Ok(lines);
        };
        let (_, others) = rest.split_at(pair.size);
        let is_new = seen.insert(pair.first.into_inner())?;
        lines.push(line_of(pair, is_new))?;
        rest = others;
    }
}

/// Returns the line of a setting, whose identifier is new if no earlier one has it.
fn line_of(pair: FirstPair, is_new: bool) -> SettingLine
    ensures id { result.id ≡ pair.first }
    ensures value { result.value ≡ pair.second }
    ensures flag { result.flag ≡ flag_of (is_reserved pair.first) (not is_new)
        (is_bad_value pair.first pair.second) }
{
    let flag = if SettingId::is_reserved(pair.first) {
        Some(SettingIssue::Reserved)
    } else if !is_new {
        Some(SettingIssue::Repeated)
    } else if is_bad_value(pair.first, pair.second) {
        Some(SettingIssue::Value)
    } else {
        None
    };
    SettingLine {
        id: pair.first.into_inner(),
        value: pair.second.into_inner(),
        flag,
    }
}

/// Returns whether a setting has a value other than 0 and 1, though it has no others (RFC 8441,
/// section 3; RFC 9220, section 3; RFC 9297, section 2.1.1; draft-ietf-webtrans-http3-02, section
/// 3.1).
fn is_bad_value(id: VarInt, value: VarInt) -> bool
    ensures { result ≡ is_bad_value id value }
{
    is_flag(id) && value.into_inner() > 1
}

/// Returns whether this is a setting whose value is used, and is 0 or 1.
fn is_flag(id: VarInt) -> bool
    ensures { result ≡ is_flag id }
{
    match find_setting(id.into_inner()) {
        Some(row) => row.columns.supported && matches!(row.columns.range, Range::Flag),
        None => false,
    }
}

/// Warns of what is wrong with settings that does not end the reading.
pub(crate) fn warn_of_settings(
    reading: &mut Reading,
    at: usize,
    lines: &[SettingLine],
) -> Result<(), AllocError>
    ensures { IfOk result (λ _. reading.new.phase ≡ reading.old.phase) }
{
    let repeated = lines
        .iter()
        .any(|line| line.flag == Some(SettingIssue::Repeated));
    if repeated {
        reading.warn(at, Some(Rule::RepeatedSetting))?;
    }
    let bad = lines
        .iter()
        .any(|line| line.flag == Some(SettingIssue::Value));
    if bad {
        reading.warn(at, Some(Rule::BadSetting))?;
    }
    Ok(())
}

/// Returns what follows settings: these bytes, or the end of the reading if they have a fault.
#[tactic(auto, using(crate::proofs::SettingLemmas::settings_go_on, crate::proofs::SettingLemmas::settings_stop))]
pub(crate) fn settings_then(
    at: usize,
    alloc: Global,
    bytes: &[u8],
    next: Next,
) -> Result<Then, AllocError>
    ensures { IfOk result (λ after. length bytes.now < 2 ^ 62
        → AfterSettings at (settings_in bytes.now) (Ok next) after) }
{
    match refusal(alloc, bytes)? {
        None => Ok(Ok(next)),
        Some(code) => Ok(Err(fault(at, code, describe(code)))),
    }
}

/// Returns why settings are refused with this code.
fn describe(code: ErrorCode) -> &'static str {
    match code {
        ErrorCode::Frame => "the payload ends within a setting (RFC 9114, section 7.1)",
        _ => "a setting must not be sent, or is repeated (RFC 9114, section 7.2.4)",
    }
}

/// Returns the first fault of a payload.
#[tactic(auto, using(crate::proofs::SettingLemmas::settings_good, crate::proofs::SettingLemmas::settings_bad))]
fn refusal(alloc: Global, bytes: &[u8]) -> Result<Option<ErrorCode>, AllocError>
    ensures { IfOk result (λ found. length bytes.now < 2 ^ 62
        → HasFault (settings_in bytes.now) found) }
{
    if bytes.len() as u64 > VarInt::MAX.into_inner() {
        return Ok(Some(ErrorCode::ExcessiveLoad));
    }
    match settings_of(alloc, bytes) {
        Ok(_) => Ok(None),
        Err(Refused::Code(code)) => Ok(Some(code)),
        Err(Refused::Memory) => Err(AllocError),
    }
}

/// Reads a payload.
fn settings_of(alloc: Global, bytes: &[u8]) -> Result<Settings, Refused>
    requires { length bytes.now < 2 ^ 62 }
    ensures { AnswersSettings bytes.now result }
{
    Settings::with_frame(alloc, &Frame::new_settings(CowSlice::Borrowed(bytes)))
}
