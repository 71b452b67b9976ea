//! The own control stream: SETTINGS first and once, and then GOAWAY, whose IDs never rise (RFC 9114,
//! sections 5.2, 6.2.1, 7.2.4 and 7.2.6).
ghost use Rattle.std.specs.Prelude.{◌≡◌, ◌≢◌, ◌⊎◌, ◌≤◌, ◌<◌, ◌^◌, ◌++◌, true, Ok, Err, IfOk, length, take, MatchOption, MatchResult};
ghost use Rattle.wtp_sending.specs.declared.control.ControlSending.{ControlSending};
ghost use Rattle.wtp_sending.specs.Control.{control_to, after_settings, after_goaway};
ghost use Rattle.wtp_webtransport.specs.declared.connection.Connection.{Connection};
ghost use Rattle.wtp_wire.specs.Settings.{settings_wire};
ghost use Rattle.wt_c.specs.Connections.{HasConnection, IsNoConnection};
ghost use Rattle.wt_c.specs.Output.{WritesPrefix, TooShort};
ghost use Rattle.wt_c.specs.Sending.{control_with, HasControl, IsNoControl, other_side, payload_verdict, settled_unless};
ghost use Rattle.wt_c.specs.SendingCalls.{ControlLeads, ControlMayLead, ControlRefuses, goaway_frame, settings_start};
ghost use Rattle.wt_c.specs.Settings.{AreWritable, pairs_of};

use crate::connections::WtConnection;
use crate::output::write_bytes;
use crate::sending::reasons::tell;
use crate::settings::{WtSetting, are_faultless, are_numbers, write_pairs};
use crate::status::{BUFFER_TOO_SMALL, INVALID, MEMORY, OK, REFUSED};
use std::alloc::{AllocError, Global};
use std::borrow::CowSlice;
use wtp_core::bytes::{BufferWriter, BytesWriter};
use wtp_core::numbers::stream_type_ids;
use wtp_core::varint::VarInt;
use wtp_frames::endpoint::Side;
use wtp_sending::control::ControlSending;
use wtp_sending::control::words::ControlWords;
use wtp_sending::error::SendError;
use wtp_wire::frame::Frame;

/// The longest payload of SETTINGS, in bytes, that `wtp_frames` reads.
const MAX_SETTINGS: usize = 4096;

/// The own control stream.
#[repr(C)]
#[derive(Clone, Copy)]
pub struct WtControl {
    /// What was sent.
    pub words: ControlWords,
    /// 0.
    pub reserved: [u64; 5],
}

impl WtControl {
    // Creates the struct of a state.
    fn of(control: &ControlSending) -> Self
        ensures { result ≡ control_with control.now }
    {
        WtControl {
            words: control.to_words(),
            reserved: [0; 5],
        }
    }

    // Returns the state, or `None` if no state has this struct.
    #[tactic(auto, using(crate::proofs::SendingLemmas::no_control_words, crate::proofs::SendingLemmas::no_control_zeros))]
    fn control(&self) -> Option<ControlSending>
        ensures { MatchOption result (IsNoControl self.now) (λ c. HasControl c self.now) }
    {
        if self.reserved != [0; 5] {
            return None;
        }
        ControlSending::from_words(self.words)
    }

    // Puts bytes to the start of `out`, and the state after them in place of this one. The results
    // are those of `write_bytes`.
    fn give(
        &mut self,
        bytes: &[u8],
        after: &ControlSending,
        out: &mut [u8],
        used: &mut usize,
    ) -> i32
        ensures answers { (result ≡ OK) ⊎ (result ≡ BUFFER_TOO_SMALL) }
        ensures bytes { result ≡ OK → WritesPrefix bytes.now out.old out.new used.new
            × HasControl after.now self.new }
        ensures room { result ≡ BUFFER_TOO_SMALL → TooShort bytes.now out.old out.new used.new
            × (self.new ≡ self.old) }
    {
        let answer = write_bytes(bytes, out, used);
        if answer == OK {
            *self = WtControl::of(after);
        }
        answer
    }

    // Puts the first bytes to the start of `out`, and the state after SETTINGS in place of this one.
    // The results are those of `write_bytes`.
    #[tactic(auto, using(crate::proofs::SendingLemmas::settles))]
    fn settle(
        &mut self,
        state: &ControlSending,
        bytes: &[u8],
        out: &mut [u8],
        used: &mut usize,
    ) -> i32
        requires { HasControl state.now self.old }
        ensures answers { (result ≡ OK) ⊎ (result ≡ BUFFER_TOO_SMALL) }
        ensures bytes { result ≡ OK → WritesPrefix bytes.now out.old out.new used.new }
        ensures state { result ≡ OK → HasControl (record state.now { settled = true }) self.new }
        ensures room { result ≡ BUFFER_TOO_SMALL → TooShort bytes.now out.old out.new used.new
            × (self.new ≡ self.old) }
    {
        let answer = write_bytes(bytes, out, used);
        if answer == OK {
            self.words.settled = 2;
        }
        answer
    }

    // Returns why SETTINGS with this payload may not be sent, if they may not.
    #[tactic(auto, using(crate::proofs::SendingLemmas::settled_before, crate::proofs::SendingLemmas::settings_large, crate::proofs::SendingLemmas::settings_fit))]
    fn settings_fault(&self, state: &ControlSending, payload: &[u8]) -> Option<SendError>
        requires { HasControl state.now self.now }
        ensures { payload_verdict state.now payload.now ≡ settled_unless state.now result }
    {
        if self.words.settled == 2 {
            return Some(SendError::Unexpected);
        }
        if payload.len() > MAX_SETTINGS {
            return Some(SendError::TooLarge);
        }
        None
    }
}

/// Creates the control stream that this end of a connection opens. Nothing is sent yet.
///
/// Returns `OK`, or `INVALID` if no connection has `connection`; nothing changes then.
#[unsafe(no_mangle)]
#[tactic(auto, using(crate::proofs::SendingLemmas::client_is, crate::proofs::SendingLemmas::server_is))]
pub extern "C" fn wt_control_new(connection: &WtConnection, control: &mut WtControl) -> i32
    ensures answers { (result ≡ OK) ⊎ (result ≡ INVALID) }
    ensures control { result ≡ OK → (c : Connection) × HasConnection c connection.now
        × HasControl (control_to (other_side c.endpoint.side)) control.new }
    ensures invalid { result ≡ INVALID → IsNoConnection connection.now
        × (control.new ≡ control.old) }
{
    if connection.connection().is_none() {
        return INVALID;
    }
    let to = if connection.words.endpoint.side == 0 {
        Side::Server
    } else {
        Side::Client
    };
    *control = WtControl::of(&ControlSending::new(to));
    OK
}

// Returns the type of the stream, and the SETTINGS frame with this payload.
#[tactic(auto, unfolding(crate::specs::SendingCalls::settings_start))]
fn first_bytes(alloc: Global, payload: &[u8]) -> Result<Vec<u8>, AllocError>
    ensures { IfOk result (λ bytes. bytes.items ≡ settings_start payload.now) }
{
    let Ok(frame) = Frame::try_new_settings(CowSlice::Borrowed(payload)) else {
        return Err(AllocError);
    };
    let mut bytes = Vec::new(alloc);
    if bytes.put_varint(stream_type_ids::CONTROL_STREAM).is_err() {
        return Err(AllocError);
    }
    if frame.write(&mut bytes).is_err() {
        return Err(AllocError);
    }
    Ok(bytes)
}

/// Writes the type of the stream and SETTINGS, with which the stream begins, to the start of `out` (RFC
/// 9114, sections 6.2.1 and 7.2.4): these settings in their order.
///
/// Returns `OK` with the number of bytes in `used`, and changes `control`. Returns `BUFFER_TOO_SMALL` if
/// `out` is shorter than that number, which `used` then is. Returns `REFUSED` with the reason in `why`:
/// `Unexpected` after the first call, or `TooLarge` if the payload has more than 4096 bytes. Returns
/// `INVALID` if no state has `control`, if a number is 2^62 or more, or if a peer would find a fault in
/// the settings: an identifier of HTTP/2, or a known one that is repeated; and `MEMORY` if allocation
/// failed. Nothing else changes.
#[unsafe(no_mangle)]
pub extern "C" fn wt_control_settings(
    alloc: Global,
    control: &mut WtControl,
    settings: &[WtSetting],
    out: &mut [u8],
    used: &mut usize,
    why: &mut u32,
) -> i32
    ensures answers { (result ≡ OK) ⊎ ((result ≡ BUFFER_TOO_SMALL) ⊎ ((result ≡ INVALID)
        ⊎ ((result ≡ MEMORY) ⊎ (result ≡ REFUSED)))) }
    ensures writable { result ≢ INVALID → AreWritable settings.now }
    ensures sent { result ≡ OK
        → ControlLeads (λ c d. after_settings c (pairs_of settings.now) ≡ Ok d)
        control.old control.new
        × WritesPrefix (settings_start (settings_wire (pairs_of settings.now))) out.old out.new used.new }
    ensures room { result ≡ BUFFER_TOO_SMALL
        → ControlMayLead (λ c d. after_settings c (pairs_of settings.now) ≡ Ok d) control.old
        × TooShort (settings_start (settings_wire (pairs_of settings.now))) out.old out.new used.new }
    ensures refused { result ≡ REFUSED
        → ControlRefuses (λ c e. after_settings c (pairs_of settings.now) ≡ Err e)
        control.old why.new }
    ensures invalid { result ≡ INVALID → IsNoControl control.old
        ⊎ (¬ (AreWritable settings.now)) }
    ensures memory { result ≡ MEMORY → (c : ControlSending) × HasControl c control.old }
    ensures same { result ≢ OK → (control.new ≡ control.old) × (out.new ≡ out.old) }
    ensures used { result ≢ OK → result ≢ BUFFER_TOO_SMALL → used.new ≡ used.old }
    ensures why { result ≢ REFUSED → why.new ≡ why.old }
{
    let Some(state) = control.control() else {
        return INVALID;
    };
    if !are_numbers(settings) || !are_faultless(settings) {
        return INVALID;
    }
    let Ok(payload) = write_pairs(alloc, settings) else {
        return MEMORY;
    };
    if let Some(error) = control.settings_fault(&state, payload.as_slice()) {
        return tell(error, why);
    }
    match first_bytes(alloc, payload.as_slice()) {
        Ok(bytes) => control.settle(&state, bytes.as_slice(), out, used),
        Err(_) => MEMORY,
    }
}

// Puts GOAWAY into the room, and returns its size.
#[tactic(auto, using(crate::proofs::SendingLemmas::goaway_fails), unfolding(crate::specs::SendingCalls::goaway_frame))]
fn put_goaway(state: &mut ControlSending, id: VarInt, room: &mut [u8]) -> Result<usize, SendError>
    requires { length room.old ≡ 24 }
    ensures { MatchResult result
        (λ n. (take n room.new ≡ goaway_frame id) × (n ≤ length room.new)
        × (after_goaway state.old id ≡ Ok state.new))
        (λ e. after_goaway state.old id ≡ Err e) }
{
    let mut writer = BufferWriter::new(room);
    match state.goaway(id, &mut writer) {
        Ok(()) => Ok(writer.offset()),
        Err(error) => Err(error),
    }
}

/// Writes GOAWAY to the start of `out`: at a server requests from the stream ID `id` on are not
/// processed, and at a client pushes from the push ID `id` on (RFC 9114, section 5.2). An ID may be sent
/// again, and a lower one. It does not allocate.
///
/// Returns `OK` with the size of the frame, at most 10, in `used`, and changes `control`. Returns
/// `BUFFER_TOO_SMALL` if `out` is shorter than that size, which `used` then is. Returns `REFUSED` with
/// the reason in `why`: `Unexpected` before SETTINGS; `InvalidId` at a server if the ID is not that of a
/// bidirectional stream of a client; or `IdRises` if it is above the last one. Returns `INVALID` if no
/// state has `control`, or if `id` is 2^62 or more. Nothing else changes.
#[unsafe(no_mangle)]
pub extern "C" fn wt_control_goaway(
    control: &mut WtControl,
    id: u64,
    out: &mut [u8],
    used: &mut usize,
    why: &mut u32,
) -> i32
    ensures answers { (result ≡ OK) ⊎ ((result ≡ BUFFER_TOO_SMALL) ⊎ ((result ≡ INVALID)
        ⊎ (result ≡ REFUSED))) }
    ensures sent { result ≡ OK
        → ControlLeads (λ c d. after_goaway c id ≡ Ok d) control.old control.new
        × WritesPrefix (goaway_frame id) out.old out.new used.new }
    ensures room { result ≡ BUFFER_TOO_SMALL
        → ControlMayLead (λ c d. after_goaway c id ≡ Ok d) control.old
        × TooShort (goaway_frame id) out.old out.new used.new }
    ensures refused { result ≡ REFUSED
        → ControlRefuses (λ c e. after_goaway c id ≡ Err e) control.old why.new }
    ensures invalid { result ≡ INVALID → IsNoControl control.old ⊎ (2 ^ 62 ≤ id) }
    ensures valid { result ≢ INVALID → id < 2 ^ 62 }
    ensures same { result ≢ OK → (control.new ≡ control.old) × (out.new ≡ out.old) }
    ensures used { result ≢ OK → result ≢ BUFFER_TOO_SMALL → used.new ≡ used.old }
    ensures why { result ≢ REFUSED → why.new ≡ why.old }
{
    let Some(mut state) = control.control() else {
        return INVALID;
    };
    let Ok(number) = VarInt::try_from_u64(id) else {
        return INVALID;
    };
    let mut bytes = [0; 24];
    match put_goaway(&mut state, number, &mut bytes) {
        Ok(size) => control.give(&bytes[..size], &state, out, used),
        Err(error) => tell(error, why),
    }
}
