//! Settings of a connection (RFC 9114, section 7.2.4).
ghost use Rattle.std.specs.Prelude.{◌≡◌, ◌≢◌, ◌⊎◌, ◌≤◌, ◌<◌, ◌^◌, ℕ, List, length, Some, None, Ok};
ghost use Rattle.std.specs.Prelude.{Err, [], IfOk, OnErr, MatchBool, Contains};
ghost use Rattle.std.specs.Map.{keys_of};
ghost use Rattle.wtp_core.specs.declared.error.ErrorCode.{ErrorCode};
ghost use Rattle.wtp_core.specs.ErrorCodes.{code_number};
ghost use Rattle.wtp_wire.specs.declared.settings.SettingId.{SettingId};
ghost use Rattle.wtp_wire.specs.SettingId.{setting_id_of, setting_name_of};
ghost use Rattle.wtp_wire.specs.Settings.{settings_in, settings_wire, StartsWithSettings};
ghost use Rattle.wtp_wire.specs.Settings.{AnswersSettings, AreFaultless};
ghost use Rattle.wt_c.specs.Output.{WritesPrefix, TooShort};
ghost use Rattle.wtp_wire.specs.SettingPairs.{numbers_of, setting_items};
ghost use Rattle.wtp_wire.specs.declared.settings.pairs.SettingPair.{SettingPair};
ghost use Rattle.wt_c.specs.declared.settings.WtSetting.{WtSetting};
ghost use Rattle.wt_c.specs.Settings.{HoldSettings, LackSettings, ArePairsOf, AreNumbers, pairs_of};
ghost use Rattle.wt_c.specs.Settings.{IsFaultlessBefore, AreWritable};

use crate::output::write_bytes;
use crate::status::{BUFFER_TOO_SMALL, ERROR, INVALID, MEMORY, OK};
use std::alloc::{AllocError, Global};
use std::borrow::CowSlice;
use wtp_core::bytes::BytesWriter;
use wtp_core::error::Refused;
use wtp_core::varint::VarInt;
use wtp_wire::frame::Frame;
use wtp_wire::settings::{SettingId, SettingPairs, Settings};

/// A setting and its value.
#[repr(C)]
#[derive(Clone, Copy)]
pub struct WtSetting {
    /// The identifier.
    pub id: u64,
    /// The value.
    pub value: u64,
}

/// Returns how many settings a payload has, or one more if it has a fault.
fn count_settings(payload: &[u8]) -> usize
    ensures { result ≡ length (setting_items payload.now) }
{
    let mut left = SettingPairs::new(payload);
    let mut n: usize = 0;
    'pairs: while let Some(_) = left.next() {
        n += 1;
    }
    n
}

/// Puts the settings of a payload into an array, in the payload's order.
fn put_settings(payload: &[u8], settings: &mut [WtSetting], count: &mut usize) -> i32
    requires { (ps : List SettingPair) × ArePairsOf payload.now ps }
    ensures answers { (result ≡ OK) ⊎ (result ≡ BUFFER_TOO_SMALL) }
    ensures settings { result ≡ OK → (ps : List SettingPair) × ArePairsOf payload.now ps
        × HoldSettings settings.old settings.new count.new (numbers_of ps) }
    ensures room { result ≡ BUFFER_TOO_SMALL → (ps : List SettingPair) × ArePairsOf payload.now ps
        × LackSettings settings.old count.new (numbers_of ps) × (settings.new ≡ settings.old) }
{
    *count = count_settings(payload);
    if *count > settings.len() {
        return BUFFER_TOO_SMALL;
    }
    let mut left = SettingPairs::new(payload);
    let mut n: usize = 0;
    'settings: while let Some(item) = left.next() {
        let Ok(pair) = item else {
            unreachable!();
        };
        settings[n] = WtSetting {
            id: pair.id.into_inner(),
            value: pair.value.into_inner(),
        };
        n += 1;
    }
    OK
}

/// Reads the settings of a SETTINGS frame's payload.
fn read_settings(alloc: Global, payload: &[u8]) -> Result<Settings, Refused>
    requires { length payload.now < 2 ^ 62 }
    ensures settings { AnswersSettings payload.now result }
{
    Settings::with_frame(alloc, &Frame::new_settings(CowSlice::Borrowed(payload)))
}

/// Reads the payload of a SETTINGS frame: all settings in the payload's order, those with unknown
/// identifiers too.
///
/// Returns `OK` with the settings: the first `count` of `settings`, after which the array does not
/// change. Returns `BUFFER_TOO_SMALL` if the array is too short; `count` is then the room that they
/// need, and the array does not change. Returns `ERROR` with the code of the first fault:
/// `H3_FRAME_ERROR` (0x106) for a payload that is cut, `H3_SETTINGS_ERROR` (0x109) for an
/// identifier of HTTP/2 or a repeated one, which is no fault of an unknown identifier. Returns
/// `MEMORY` if allocation failed, which happens only at a setting. Returns `INVALID` for a payload
/// of 2^62 bytes or more. Otherwise nothing changes.
#[unsafe(no_mangle)]
pub extern "C" fn wt_settings_read(
    alloc: Global,
    payload: &[u8],
    settings: &mut [WtSetting],
    count: &mut usize,
    code: &mut u64,
) -> i32
    ensures answers { (result ≡ OK) ⊎ ((result ≡ BUFFER_TOO_SMALL) ⊎ ((result ≡ ERROR)
        ⊎ ((result ≡ MEMORY) ⊎ (result ≡ INVALID)))) }
    ensures settings { result ≡ OK → (ps : List SettingPair) × ArePairsOf payload.now ps
        × HoldSettings settings.old settings.new count.new (numbers_of ps) }
    ensures room { result ≡ BUFFER_TOO_SMALL → (ps : List SettingPair) × ArePairsOf payload.now ps
        × LackSettings settings.old count.new (numbers_of ps) × (settings.new ≡ settings.old) }
    ensures fault { result ≡ ERROR → (e : ErrorCode) × (settings_in payload.now ≡ Err e)
        × (code.new ≡ code_number e)
        × (settings.new ≡ settings.old) × (count.new ≡ count.old) }
    ensures memory { result ≡ MEMORY → StartsWithSettings payload.now
        × (settings.new ≡ settings.old) × (count.new ≡ count.old) }
    ensures invalid { result ≡ INVALID → (2 ^ 62 ≤ length payload.now)
        × (settings.new ≡ settings.old) × (count.new ≡ count.old) }
    ensures valid { result ≢ INVALID → length payload.now < 2 ^ 62 }
    ensures code { result ≢ ERROR → code.new ≡ code.old }
{
    if payload.len() as u64 > VarInt::MAX.into_inner() {
        return INVALID;
    }
    match read_settings(alloc, payload) {
        Ok(_) => put_settings(payload, settings, count),
        Err(Refused::Code(fault)) => {
            *code = fault.to_code().into_inner();
            ERROR
        }
        Err(Refused::Memory) => MEMORY,
    }
}

/// Returns whether each identifier and each value is below 2^62.
pub(crate) fn are_numbers(settings: &[WtSetting]) -> bool
    ensures { MatchBool result (AreNumbers settings.now) (¬ (AreNumbers settings.now)) }
{
    for setting in settings {
        if setting.id > VarInt::MAX.into_inner() || setting.value > VarInt::MAX.into_inner() {
            return false;
        }
    }
    true
}

/// Returns whether one of the settings has this identifier.
#[tactic(auto, using(crate::proofs::FaultlessLemmas::id_steps))]
fn contains_id(settings: &[WtSetting], id: u64) -> bool
    ensures { MatchBool result (Contains (keys_of (pairs_of settings.now)) id)
        (¬ (Contains (keys_of (pairs_of settings.now)) id)) }
{
    for setting in settings {
        if setting.id == id {
            return true;
        }
    }
    false
}

/// Returns whether a setting before these has no fault: its identifier is not one of HTTP/2, nor a
/// known one that is repeated.
#[tactic(auto, using(crate::proofs::FaultlessLemmas::before_steps))]
fn is_faultless(id: VarInt, others: &[WtSetting]) -> bool
    ensures { MatchBool result (IsFaultlessBefore id others.now)
        (¬ (IsFaultlessBefore id others.now)) }
{
    if SettingId::is_reserved(id) {
        return false;
    }
    match SettingId::parse(id) {
        None => true,
        Some(_setting) => {
            if contains_id(others, id.into_inner()) {
                return false;
            }
            true
        }
    }
}

/// Returns whether the settings have no fault. Each identifier that is known is compared with all
/// after it: for n settings there are at most n (n - 1) / 2 comparisons.
#[tactic(auto, using(crate::proofs::FaultlessLemmas::faultless_steps))]
pub(crate) fn are_faultless(settings: &[WtSetting]) -> bool
    requires { AreNumbers settings.now }
    ensures { MatchBool result (AreFaultless (pairs_of settings.now))
        (¬ (AreFaultless (pairs_of settings.now))) }
{
    let mut left = settings;
    'settings: while let Some((setting, others)) = left.split_first() {
        if !is_faultless(VarInt::from_u64_unchecked(setting.id), others) {
            return false;
        }
        left = others;
    }
    true
}

/// Writes the numbers of settings and their values one after the other.
pub(crate) fn write_pairs(alloc: Global, settings: &[WtSetting]) -> Result<Vec<u8>, AllocError>
    requires { AreNumbers settings.now }
    ensures pairs { IfOk result (λ v. v.items ≡ settings_wire (pairs_of settings.now)) }
    ensures memory { OnErr result (settings.now ≢ []) }
{
    let mut payload = Vec::new(alloc);
    for setting in settings {
        if payload
            .put_varint(VarInt::from_u64_unchecked(setting.id))
            .is_err()
        {
            return Err(AllocError);
        }
        if payload
            .put_varint(VarInt::from_u64_unchecked(setting.value))
            .is_err()
        {
            return Err(AllocError);
        }
    }
    Ok(payload)
}

/// Writes the payload of a SETTINGS frame to the start of `out`: the settings in their order.
///
/// Returns `OK` with the size of the payload in `used`. Returns `BUFFER_TOO_SMALL` if `out` is
/// shorter than that size, which `used` then is; `out` does not change. Returns `INVALID` if a
/// number is 2^62 or more, or if a peer would find a fault in the payload: an identifier of HTTP/2,
/// or a known one that is repeated. Otherwise returns `MEMORY` if allocation failed, which does not
/// happen for no settings at all. Then nothing changes.
///
/// As it is implemented, n settings take at most n (n - 1) / 2 comparisons of identifiers.
#[unsafe(no_mangle)]
pub extern "C" fn wt_settings_write(
    alloc: Global,
    settings: &[WtSetting],
    out: &mut [u8],
    used: &mut usize,
) -> i32
    ensures answers { (result ≡ OK) ⊎ ((result ≡ BUFFER_TOO_SMALL) ⊎ ((result ≡ INVALID) ⊎ (result ≡ MEMORY))) }
    ensures bytes { result ≡ OK → AreWritable settings.now
        × WritesPrefix (settings_wire (pairs_of settings.now)) out.old out.new used.new }
    ensures room { result ≡ BUFFER_TOO_SMALL → AreWritable settings.now
        × TooShort (settings_wire (pairs_of settings.now)) out.old out.new used.new }
    ensures invalid { result ≡ INVALID → (¬ (AreWritable settings.now))
        × (out.new ≡ out.old) × (used.new ≡ used.old) }
    ensures memory { result ≡ MEMORY → AreWritable settings.now × (settings.now ≢ [])
        × (out.new ≡ out.old) × (used.new ≡ used.old) }
{
    if !are_numbers(settings) || !are_faultless(settings) {
        return INVALID;
    }
    match write_pairs(alloc, settings) {
        Ok(payload) => write_bytes(payload.as_slice(), out, used),
        Err(_) => MEMORY,
    }
}

/// Settings that are written are read again without a fault.
pub fn written_settings_are_read()
    ensures { (settings : List WtSetting) → AreWritable settings → (m : List (ℕ × ℕ))
        × (settings_in (settings_wire (pairs_of settings)) ≡ Ok m) }
{}

/// Writes the name of a setting to the start of `out`, in ASCII and without a final zero:
/// `SETTINGS_H3_DATAGRAM` and its like, or the number of one that is reserved for exercise, as
/// `0x21`.
///
/// Returns `OK` with the size of the name in `used`. Returns `BUFFER_TOO_SMALL` if `out` is shorter
/// than that size, which `used` then is; `out` does not change. Returns `INVALID` if the number is
/// not that of a setting; otherwise `MEMORY` if allocation failed. Then nothing changes.
#[unsafe(no_mangle)]
pub extern "C" fn wt_setting_name(alloc: Global, id: u64, out: &mut [u8], used: &mut usize) -> i32
    ensures answers { (result ≡ OK) ⊎ ((result ≡ BUFFER_TOO_SMALL) ⊎ ((result ≡ INVALID) ⊎ (result ≡ MEMORY))) }
    ensures name { result ≡ OK → (setting : SettingId) × (setting_id_of id ≡ Some setting)
        × WritesPrefix (setting_name_of setting) out.old out.new used.new }
    ensures room { result ≡ BUFFER_TOO_SMALL → (setting : SettingId) × (setting_id_of id ≡ Some setting)
        × TooShort (setting_name_of setting) out.old out.new used.new }
    ensures invalid { result ≡ INVALID → ((setting_id_of id ≡ None) ⊎ (2 ^ 62 ≤ id))
        × (out.new ≡ out.old) × (used.new ≡ used.old) }
    ensures valid { result ≢ INVALID → id < 2 ^ 62 }
    ensures memory { result ≡ MEMORY → (setting : SettingId) × (setting_id_of id ≡ Some setting)
        × (out.new ≡ out.old) × (used.new ≡ used.old) }
{
    let Ok(number) = VarInt::try_from_u64(id) else {
        return INVALID;
    };
    let Some(setting) = SettingId::parse(number) else {
        return INVALID;
    };
    match format!(in alloc; "{setting}") {
        Ok(name) => write_bytes(name.as_str().as_bytes(), out, used),
        Err(_) => MEMORY,
    }
}
