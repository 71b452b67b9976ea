//! QPACK's encoder in memory of the caller: the dynamic table to which sections refer, and what the peer
//! acknowledged.
ghost use Rattle.std.specs.Prelude.{◌≡◌, ◌≢◌, ◌⊎◌, ◌≤◌, ◌<◌, ◌^◌, length, IfOk, MatchBool, MatchOption, MatchResult, true, false};
ghost use Rattle.wtp_dynamic.specs.declared.error.DecoderStreamError.{DecoderStreamError};
ghost use Rattle.wtp_dynamic_encoder.specs.Encoding.{is_unused};
ghost use Rattle.wtp_dynamic_encoder.specs.Stored.{most_stored};
ghost use Rattle.wt_c.specs.Encoders.{IsRoomy, HasEncoder, IsNoEncoder, AreBytesOf, PutsEncoder, policy_of, new_encoder, capacity_for, with_limits, capacity_order, IsUsedIn, TakesLimits, LacksRoomForLimits, ReadsPiece, RefusesPiece, CountsSections, TakesBack};

use crate::connections::beside::put;
use crate::connections::table::settle;
use crate::status::{BUFFER_TOO_SMALL, ERROR, INVALID, MEMORY, OK};
use crate::texts::Rejection;
use std::alloc::{AllocError, Global};
use wtp_core::error::Code;
use wtp_dynamic::error::DecoderStreamError;
use wtp_dynamic_encoder::encoder::QpackEncoder;
use wtp_dynamic_encoder::proposal::Policy;

/// The largest limit of the capacity of a table.
const MAX_LIMIT: u64 = (1 << 60) - 1;

/// What an encoder needs beside its entries and its sections, in bytes.
const FIXED: u64 = 107;

/// What an encoder needs for each section that is not acknowledged, in bytes.
const PER_SECTION: u64 = 24;

/// What an encoder does by itself.
#[repr(C)]
#[derive(Clone, Copy)]
pub struct WtPolicy {
    /// The size of the largest entry that is inserted: of its name and its value, and 32 bytes.
    pub largest: u64,
    /// How many bytes of the table to keep available, at most half of its capacity.
    pub reserved: u64,
    /// How many sections that refer to the table may be unacknowledged.
    pub unacknowledged: u64,
}

impl WtPolicy {
    // Returns the policy of an encoder.
    fn policy(&self) -> Policy
        ensures { result ≡ policy_of self.now }
    {
        Policy {
            largest: self.largest,
            reserved: self.reserved,
            unacknowledged: self.unacknowledged,
        }
    }
}

// Returns the largest capacity for which so many bytes have room, beside so many sections that are not
// acknowledged. Returns `None` if they have room for none.
fn room_left(len: usize, unacknowledged: u64) -> Option<u64>
    ensures { MatchOption result (len < most_stored 0 unacknowledged)
        (λ capacity. most_stored capacity unacknowledged ≡ len) }
{
    let sections = unacknowledged.checked_mul(PER_SECTION)?;
    let rest = (len as u64).checked_sub(FIXED)?;
    rest.checked_sub(sections)
}

// Returns whether so many bytes have room for each state of an encoder.
fn is_roomy(encoder: &QpackEncoder, len: usize) -> bool
    ensures { MatchBool result (IsRoomy encoder.now len) (¬ (IsRoomy encoder.now len)) }
{
    let unacknowledged = encoder.policy().unacknowledged;
    if encoder.unacknowledged() as u64 > unacknowledged {
        return false;
    }
    match room_left(len, unacknowledged) {
        Some(capacity) => encoder.table().capacity() <= capacity,
        None => false,
    }
}

// Returns the encoder at the start of bytes.
pub(crate) fn encoder_in(alloc: Global, bytes: &[u8]) -> Result<QpackEncoder, Rejection>
    ensures { MatchResult result (λ s. HasEncoder s bytes.now)
        (λ e. e ≡ Rejection.Invalid → IsNoEncoder bytes.now) }
{
    match QpackEncoder::from_bytes(alloc, bytes) {
        Ok(Some(encoder)) => {
            if is_roomy(&encoder, bytes.len()) {
                Ok(encoder)
            } else {
                Err(Rejection::Invalid)
            }
        }
        Ok(None) => Err(Rejection::Invalid),
        Err(_) => Err(Rejection::Memory),
    }
}

// Returns the bytes of an encoder.
pub(crate) fn stored(alloc: Global, encoder: &QpackEncoder) -> Result<Vec<u8>, AllocError>
    ensures { IfOk result (λ bytes. AreBytesOf encoder.now bytes.items) }
{
    encoder.to_bytes(alloc)
}

// Puts an encoder to the start of an array that has room for it. Returns `OK`, or `MEMORY`.
fn keep(alloc: Global, encoder: &QpackEncoder, array: &mut [u8]) -> i32
    requires { IsRoomy encoder.now (length array.old) }
    ensures answers { (result ≡ OK) ⊎ (result ≡ MEMORY) }
    ensures put { result ≡ OK → PutsEncoder encoder.now array.old array.new }
    ensures same { result ≢ OK → array.new ≡ array.old }
{
    let Ok(bytes) = stored(alloc, encoder) else {
        return MEMORY;
    };
    put(bytes.as_slice(), array);
    OK
}

/// Makes an encoder without a table, and puts it to the start of `encoder`. It inserts nothing until
/// `wt_encoder_limits` gives it a table.
///
/// Returns `OK`. Returns `INVALID` if `encoder` is shorter than 107 bytes and 24 for each section that
/// the policy allows, or `MEMORY`. Only `OK` changes anything.
#[unsafe(no_mangle)]
pub extern "C" fn wt_encoder_new(alloc: Global, policy: &WtPolicy, encoder: &mut [u8]) -> i32
    ensures answers { (result ≡ OK) ⊎ ((result ≡ INVALID) ⊎ (result ≡ MEMORY)) }
    ensures encoder { result ≡ OK → PutsEncoder (new_encoder policy.now) encoder.old encoder.new }
    ensures invalid { result ≡ INVALID
        → length encoder.old < most_stored 0 policy.now.unacknowledged }
    ensures memory { result ≡ MEMORY
        → most_stored 0 policy.now.unacknowledged ≤ length encoder.old }
    ensures same { result ≢ OK → encoder.new ≡ encoder.old }
{
    if room_left(encoder.len(), policy.unacknowledged).is_none() {
        return INVALID;
    }
    let mut state = QpackEncoder::new(alloc, 0, 0);
    state.set_policy(policy.policy());
    keep(alloc, &state, encoder)
}

// Sets the limits of an unused encoder, and takes the largest capacity for which so many bytes have
// room. Returns the instruction that does so, or `None` if the encoder is used.
fn take_limits(
    alloc: Global,
    encoder: &mut QpackEncoder,
    limit: u64,
    blocked: u64,
    len: usize,
) -> Result<Option<Vec<u8>>, AllocError>
    requires { IsRoomy encoder.old len }
    ensures { IfOk result (λ taken. MatchOption taken
        (is_unused encoder.old.table encoder.old.ledger ≡ false)
        (λ order. (is_unused encoder.old.table encoder.old.ledger ≡ true)
        × (order.items ≡ capacity_order (capacity_for limit len encoder.old))
        × (encoder.new ≡ with_limits limit blocked (capacity_for limit len encoder.old) encoder.old))) }
{
    let limit = if limit > MAX_LIMIT { 0 } else { limit };
    if !encoder.set_limits(limit, blocked) {
        return Ok(None);
    }
    let mut order = Vec::new(alloc);
    let room = room_left(len, encoder.policy().unacknowledged).unwrap_or(0);
    let capacity = limit.min(room);
    if capacity > 0 {
        let set = encoder.set_capacity(capacity, &mut order)?;
        prove!(set);
    }
    Ok(Some(order))
}

/// Sets the limits that the SETTINGS of the peer announce: the largest capacity of the table, and how
/// many streams may be blocked. The capacity is then the largest that the limit and the array allow, and
/// the instruction that sets it (RFC 9204, section 4.3.1) is written to the start of `out`, if it is not
/// 0. A limit of 2^60 or more is taken as 0, which allows no table.
///
/// Returns `OK` with the size of the instruction in `used`, or 0. Returns `BUFFER_TOO_SMALL` if `out` is
/// too short; `used` is then the size. Returns `INVALID` if no encoder is in `encoder`, or if it is used:
/// it has a table, entries, sections or acknowledgments; or `MEMORY`. Only `OK` changes the array and
/// `out`, and only `OK` and `BUFFER_TOO_SMALL` change `used`.
#[unsafe(no_mangle)]
pub extern "C" fn wt_encoder_limits(
    alloc: Global,
    encoder: &mut [u8],
    limit: u64,
    blocked: u64,
    out: &mut [u8],
    used: &mut usize,
) -> i32
    ensures answers { (result ≡ OK) ⊎ ((result ≡ BUFFER_TOO_SMALL) ⊎ ((result ≡ INVALID)
        ⊎ (result ≡ MEMORY))) }
    ensures set { result ≡ OK
        → TakesLimits limit blocked encoder.old encoder.new out.old out.new used.new }
    ensures room { result ≡ BUFFER_TOO_SMALL
        → LacksRoomForLimits limit encoder.old out.old out.new used.new }
    ensures invalid { result ≡ INVALID → IsNoEncoder encoder.old ⊎ IsUsedIn encoder.old }
    ensures same { result ≢ OK → (encoder.new ≡ encoder.old) × (out.new ≡ out.old) }
    ensures used { result ≢ OK → result ≢ BUFFER_TOO_SMALL → used.new ≡ used.old }
{
    let mut state = match encoder_in(alloc, encoder) {
        Ok(state) => state,
        Err(rejection) => return rejection.answer(),
    };
    let order = match take_limits(alloc, &mut state, limit, blocked, encoder.len()) {
        Ok(Some(order)) => order,
        Ok(None) => return INVALID,
        Err(_) => return MEMORY,
    };
    let Ok(bytes) = stored(alloc, &state) else {
        return MEMORY;
    };
    settle(order.as_slice(), bytes.as_slice(), encoder, out, used)
}

/// Reads the next bytes of the peer's decoder stream (RFC 9204, section 4.4), cut anywhere.
///
/// Returns `OK`. Returns `ERROR` if they break a rule, with the code QPACK_DECODER_STREAM_ERROR in
/// `code`, which ends the connection. Returns `INVALID` if no encoder is in `encoder`, or `MEMORY`. Only
/// `OK` changes the array, and only `ERROR` changes `code`.
#[unsafe(no_mangle)]
pub extern "C" fn wt_encoder_receive(
    alloc: Global,
    encoder: &mut [u8],
    bytes: &[u8],
    code: &mut u64,
) -> i32
    ensures answers { (result ≡ OK) ⊎ ((result ≡ ERROR) ⊎ ((result ≡ INVALID)
        ⊎ (result ≡ MEMORY))) }
    ensures read { result ≡ OK → ReadsPiece bytes.now encoder.old encoder.new }
    ensures error { result ≡ ERROR → RefusesPiece bytes.now encoder.old × (code.new ≡ 0x202) }
    ensures invalid { result ≡ INVALID → IsNoEncoder encoder.old }
    ensures same { result ≢ OK → encoder.new ≡ encoder.old }
    ensures code { result ≢ ERROR → code.new ≡ code.old }
{
    let mut state = match encoder_in(alloc, encoder) {
        Ok(state) => state,
        Err(rejection) => return rejection.answer(),
    };
    match state.read_decoder_stream(bytes) {
        Ok(()) => keep(alloc, &state, encoder),
        Err(DecoderStreamError::Memory) => MEMORY,
        Err(_) => {
            *code = Code::QPACK_DECODER_STREAM_ERROR.number().into_inner();
            ERROR
        }
    }
}

/// Returns how many sections that refer to the table are not acknowledged.
///
/// Returns `OK` with their number in `count`. Returns `INVALID` if no encoder is in `encoder`, or
/// `MEMORY`; nothing changes then.
#[unsafe(no_mangle)]
pub extern "C" fn wt_encoder_unacknowledged(alloc: Global, encoder: &[u8], count: &mut u64) -> i32
    ensures answers { (result ≡ OK) ⊎ ((result ≡ INVALID) ⊎ (result ≡ MEMORY)) }
    ensures count { result ≡ OK → CountsSections encoder.now count.new }
    ensures invalid { result ≡ INVALID → IsNoEncoder encoder.now }
    ensures same { result ≢ OK → count.new ≡ count.old }
{
    match encoder_in(alloc, encoder) {
        Ok(state) => {
            *count = state.unacknowledged() as u64;
            OK
        }
        Err(rejection) => rejection.answer(),
    }
}

/// Takes back sections that were written and are not sent: only the oldest `count` of those that are not
/// acknowledged are kept. With the number of `wt_encoder_unacknowledged` before a section was written,
/// this undoes what was noted of it. The instructions that were written with it still have to be sent.
/// No section of which a byte was sent may be taken back.
///
/// Returns `OK`. Returns `INVALID` if no encoder is in `encoder`, or `MEMORY`; nothing changes then.
#[unsafe(no_mangle)]
pub extern "C" fn wt_encoder_take_back(alloc: Global, encoder: &mut [u8], count: u64) -> i32
    ensures answers { (result ≡ OK) ⊎ ((result ≡ INVALID) ⊎ (result ≡ MEMORY)) }
    ensures taken { result ≡ OK → TakesBack count encoder.old encoder.new }
    ensures invalid { result ≡ INVALID → IsNoEncoder encoder.old }
    ensures same { result ≢ OK → encoder.new ≡ encoder.old }
{
    let mut state = match encoder_in(alloc, encoder) {
        Ok(state) => state,
        Err(rejection) => return rejection.answer(),
    };
    state.take_back(count as usize);
    keep(alloc, &state, encoder)
}
