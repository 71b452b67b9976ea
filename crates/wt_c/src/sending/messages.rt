//! What is sent on the stream of a request: the sections of its message, its content, and the end.
ghost use Rattle.std.specs.Prelude.{◌≡◌, ◌≢◌, ◌⊎◌, ◌≤◌, Ok, Err, length, take, MatchResult};
ghost use Rattle.wtp_sending.specs.declared.message.Sending.{Sending};
ghost use Rattle.wtp_sending.specs.declared.error.SendError.{SendError};
ghost use Rattle.wtp_sending.specs.Message.{SendsHead, SendsTrailers, RefusesHeaders, RefusesTrailers, headers_wire, data_head, after_data, after_bytes, after_end, opens, placed};
ghost use Rattle.wt_c.specs.Fields.{AreWithin};
ghost use Rattle.wt_c.specs.Output.{WritesPrefix, TooShort};
ghost use Rattle.wt_c.specs.Sending.{HasSending, IsNoSending};
ghost use Rattle.wt_c.specs.SendingCalls.{Leads, MayLead, Refuses, sends, refuses};
ghost use Rattle.wt_c.specs.Texts.{lines_in};

use crate::fields::WtField;
use crate::sending::WtSending;
use crate::sending::lists::list_of;
use crate::sending::reasons::{refuse, tell};
use crate::status::{BUFFER_TOO_SMALL, INVALID, MEMORY, OK, REFUSED};
use std::alloc::Global;
use wtp_core::bytes::BufferWriter;
use wtp_fields::fields::FieldList;
use wtp_sending::error::SendError;
use wtp_sending::message::Sending;

/// A field section of a message.
#[derive(Clone, Copy)]
pub(crate) enum Section {
    /// The head, or that of an interim response.
    Head,
    /// The trailers.
    Trailers,
}

impl Section {
    // Returns the HEADERS frame of the section, and changes the state.
    fn write(
        self,
        alloc: Global,
        state: &mut Sending,
        list: &FieldList,
    ) -> Result<Vec<u8>, SendError>
        ensures { MatchResult result
            (λ bytes. (bytes.items ≡ headers_wire list.now)
            × sends self list.now state.old state.new)
            (λ e. refuses self list.now state.old e) }
    {
        let mut bytes = Vec::new(alloc);
        match self {
            Section::Head => match state.headers(alloc, list, &mut bytes) {
                Ok(()) => Ok(bytes),
                Err(error) => Err(error),
            },
            Section::Trailers => match state.trailers(alloc, list, &mut bytes) {
                Ok(()) => Ok(bytes),
                Err(error) => Err(error),
            },
        }
    }
}

// Writes a field section.
fn send_section(
    alloc: Global,
    section: Section,
    sending: &mut WtSending,
    fields: &[WtField],
    texts: &[u8],
    out: &mut [u8],
    used: &mut usize,
    why: &mut u32,
) -> i32
    ensures answers { (result ≡ OK) ⊎ ((result ≡ BUFFER_TOO_SMALL) ⊎ ((result ≡ INVALID)
        ⊎ ((result ≡ MEMORY) ⊎ (result ≡ REFUSED)))) }
    ensures sent { result ≡ OK → AreWithin (length texts.now) fields.now
        × Leads (sends section (lines_in texts.now fields.now)) sending.old sending.new
        × WritesPrefix (headers_wire (lines_in texts.now fields.now)) out.old out.new used.new }
    ensures room { result ≡ BUFFER_TOO_SMALL → AreWithin (length texts.now) fields.now
        × MayLead (sends section (lines_in texts.now fields.now)) sending.old
        × TooShort (headers_wire (lines_in texts.now fields.now)) out.old out.new used.new }
    ensures refused { result ≡ REFUSED → AreWithin (length texts.now) fields.now
        × Refuses (λ s e. refuses section (lines_in texts.now fields.now) s e
        × (e ≢ SendError.Memory)) sending.old why.new }
    ensures invalid { result ≡ INVALID → AreWithin (length texts.now) fields.now
        → IsNoSending sending.old }
    ensures memory { result ≡ MEMORY → AreWithin (length texts.now) fields.now
        × (s : Sending) × HasSending s sending.old }
    ensures same { result ≢ OK → (sending.new ≡ sending.old) × (out.new ≡ out.old) }
    ensures used { result ≢ OK → result ≢ BUFFER_TOO_SMALL → used.new ≡ used.old }
    ensures why { result ≢ REFUSED → why.new ≡ why.old }
{
    let Some(mut state) = sending.sending() else {
        return INVALID;
    };
    let list = match list_of(alloc, fields, texts) {
        Ok(list) => list,
        Err(rejection) => return rejection.answer(),
    };
    match section.write(alloc, &mut state, &list) {
        Ok(bytes) => sending.give(bytes.as_slice(), &state, out, used),
        Err(error) => refuse(error, why),
    }
}

/// Writes the HEADERS frame of a request, of an interim response or of the final one to the start of
/// `out`: these fields in their order, with repeated names. The rules of their message are checked (RFC
/// 9114, sections 4.1 to 4.4).
///
/// Returns `OK` with the size of the frame in `used`, and changes `sending`. Returns `BUFFER_TOO_SMALL`
/// if `out` is shorter than that size, which `used` then is. Returns `REFUSED` with the reason in `why`:
/// a rule that the fields break; `Unexpected` after the head of the message; `TooLarge` if the section
/// is larger than the peer accepts; `Unsupported` if it asks for a session that the peer does not
/// support; or `TooManyInterim` after 64 interim responses. Returns `INVALID` if no state has `sending`,
/// or if a field is not within `texts`; and `MEMORY` if allocation failed. Nothing else changes.
#[unsafe(no_mangle)]
pub extern "C" fn wt_sending_headers(
    alloc: Global,
    sending: &mut WtSending,
    fields: &[WtField],
    texts: &[u8],
    out: &mut [u8],
    used: &mut usize,
    why: &mut u32,
) -> i32
    ensures answers { (result ≡ OK) ⊎ ((result ≡ BUFFER_TOO_SMALL) ⊎ ((result ≡ INVALID)
        ⊎ ((result ≡ MEMORY) ⊎ (result ≡ REFUSED)))) }
    ensures sent { result ≡ OK → AreWithin (length texts.now) fields.now
        × Leads (λ s t. SendsHead s (lines_in texts.now fields.now) t) sending.old sending.new
        × WritesPrefix (headers_wire (lines_in texts.now fields.now)) out.old out.new used.new }
    ensures room { result ≡ BUFFER_TOO_SMALL → AreWithin (length texts.now) fields.now
        × MayLead (λ s t. SendsHead s (lines_in texts.now fields.now) t) sending.old
        × TooShort (headers_wire (lines_in texts.now fields.now)) out.old out.new used.new }
    ensures refused { result ≡ REFUSED → AreWithin (length texts.now) fields.now
        × Refuses (λ s e. RefusesHeaders s (lines_in texts.now fields.now) None e
        × (e ≢ SendError.Memory)) sending.old why.new }
    ensures invalid { result ≡ INVALID → AreWithin (length texts.now) fields.now
        → IsNoSending sending.old }
    ensures memory { result ≡ MEMORY → AreWithin (length texts.now) fields.now
        × (s : Sending) × HasSending s sending.old }
    ensures same { result ≢ OK → (sending.new ≡ sending.old) × (out.new ≡ out.old) }
    ensures used { result ≢ OK → result ≢ BUFFER_TOO_SMALL → used.new ≡ used.old }
    ensures why { result ≢ REFUSED → why.new ≡ why.old }
{
    send_section(alloc, Section::Head, sending, fields, texts, out, used, why)
}

/// Writes the HEADERS frame of trailers to the start of `out`, as `wt_sending_headers` does it. The
/// message ends after them.
///
/// Returns its answers. The reasons are a rule that the trailers break; `ContentTooShort` if there is
/// less content than `content-length` announced; `DataMissing` if bytes of the last DATA frame are still
/// to be sent; `Unexpected` before the head of the message, after its trailers and on the stream of a
/// CONNECT; and `TooLarge`.
#[unsafe(no_mangle)]
pub extern "C" fn wt_sending_trailers(
    alloc: Global,
    sending: &mut WtSending,
    fields: &[WtField],
    texts: &[u8],
    out: &mut [u8],
    used: &mut usize,
    why: &mut u32,
) -> i32
    ensures answers { (result ≡ OK) ⊎ ((result ≡ BUFFER_TOO_SMALL) ⊎ ((result ≡ INVALID)
        ⊎ ((result ≡ MEMORY) ⊎ (result ≡ REFUSED)))) }
    ensures sent { result ≡ OK → AreWithin (length texts.now) fields.now
        × Leads (λ s t. SendsTrailers s (lines_in texts.now fields.now) t) sending.old sending.new
        × WritesPrefix (headers_wire (lines_in texts.now fields.now)) out.old out.new used.new }
    ensures room { result ≡ BUFFER_TOO_SMALL → AreWithin (length texts.now) fields.now
        × MayLead (λ s t. SendsTrailers s (lines_in texts.now fields.now) t) sending.old
        × TooShort (headers_wire (lines_in texts.now fields.now)) out.old out.new used.new }
    ensures refused { result ≡ REFUSED → AreWithin (length texts.now) fields.now
        × Refuses (λ s e. RefusesTrailers s (lines_in texts.now fields.now) None e
        × (e ≢ SendError.Memory)) sending.old why.new }
    ensures invalid { result ≡ INVALID → AreWithin (length texts.now) fields.now
        → IsNoSending sending.old }
    ensures memory { result ≡ MEMORY → AreWithin (length texts.now) fields.now
        × (s : Sending) × HasSending s sending.old }
    ensures same { result ≢ OK → (sending.new ≡ sending.old) × (out.new ≡ out.old) }
    ensures used { result ≢ OK → result ≢ BUFFER_TOO_SMALL → used.new ≡ used.old }
    ensures why { result ≢ REFUSED → why.new ≡ why.old }
{
    send_section(
        alloc,
        Section::Trailers,
        sending,
        fields,
        texts,
        out,
        used,
        why,
    )
}

// Puts the head of a DATA frame into the room, and returns its size.
#[tactic(auto, using(crate::proofs::SendingLemmas::data_fails))]
fn put_head(state: &mut Sending, len: u64, room: &mut [u8]) -> Result<usize, SendError>
    requires { length room.old ≡ 24 }
    ensures { MatchResult result
        (λ n. (take n room.new ≡ data_head len) × (n ≤ length room.new)
        × (after_data state.old len ≡ Ok state.new))
        (λ e. after_data state.old len ≡ Err e) }
{
    let mut writer = BufferWriter::new(room);
    match state.data(len, &mut writer) {
        Ok(()) => Ok(writer.offset()),
        Err(error) => Err(error),
    }
}

/// Writes the head of a DATA frame with `len` bytes to the start of `out`. The bytes are to be sent after
/// it: they are not passed, and need not be copied. `wt_sending_sent` counts them. It does not allocate.
///
/// Returns `OK` with the size of the head, at most 9, in `used`, and changes `sending`. Returns
/// `BUFFER_TOO_SMALL` if `out` is shorter than that size, which `used` then is. Returns `REFUSED` with
/// the reason in `why`: `Unexpected` before the head of the message, after its trailers, and on the
/// stream of a CONNECT that is not a tunnel; `DataMissing` if bytes of the last DATA frame are still to
/// be sent; `EmptyData` for 0; `TooLarge` from 2^62 on; or `ContentTooLong` for more content than
/// `content-length` announced. Returns `INVALID` if no state has `sending`. Nothing else changes.
#[unsafe(no_mangle)]
pub extern "C" fn wt_sending_data(
    sending: &mut WtSending,
    len: u64,
    out: &mut [u8],
    used: &mut usize,
    why: &mut u32,
) -> i32
    ensures answers { (result ≡ OK) ⊎ ((result ≡ BUFFER_TOO_SMALL) ⊎ ((result ≡ INVALID)
        ⊎ (result ≡ REFUSED))) }
    ensures sent { result ≡ OK
        → Leads (λ s t. after_data s len ≡ Ok t) sending.old sending.new
        × WritesPrefix (data_head len) out.old out.new used.new }
    ensures room { result ≡ BUFFER_TOO_SMALL
        → MayLead (λ s t. after_data s len ≡ Ok t) sending.old
        × TooShort (data_head len) out.old out.new used.new }
    ensures refused { result ≡ REFUSED
        → Refuses (λ s e. after_data s len ≡ Err e) sending.old why.new }
    ensures invalid { result ≡ INVALID → IsNoSending sending.old }
    ensures same { result ≢ OK → (sending.new ≡ sending.old) × (out.new ≡ out.old) }
    ensures used { result ≢ OK → result ≢ BUFFER_TOO_SMALL → used.new ≡ used.old }
    ensures why { result ≢ REFUSED → why.new ≡ why.old }
{
    let Some(mut state) = sending.sending() else {
        return INVALID;
    };
    let mut bytes = [0; 24];
    match put_head(&mut state, len, &mut bytes) {
        Ok(size) => sending.give(&bytes[..size], &state, out, used),
        Err(error) => tell(error, why),
    }
}

/// Counts `len` bytes of the last DATA frame as sent.
///
/// Returns `OK`. Returns `REFUSED`, for `DataExceeded`, if fewer are still to be sent, and `INVALID` if no
/// state has `sending`. Only `OK` changes `sending`, and only `REFUSED` changes `why`.
#[unsafe(no_mangle)]
pub extern "C" fn wt_sending_sent(sending: &mut WtSending, len: u64, why: &mut u32) -> i32
    ensures answers { (result ≡ OK) ⊎ ((result ≡ INVALID) ⊎ (result ≡ REFUSED)) }
    ensures sent { result ≡ OK → Leads (λ s t. after_bytes s len ≡ Ok t) sending.old sending.new }
    ensures refused { result ≡ REFUSED
        → Refuses (λ s e. after_bytes s len ≡ Err e) sending.old why.new }
    ensures invalid { result ≡ INVALID → IsNoSending sending.old }
    ensures same { result ≢ OK → sending.new ≡ sending.old }
    ensures why { result ≢ REFUSED → why.new ≡ why.old }
{
    let Some(mut state) = sending.sending() else {
        return INVALID;
    };
    match state.sent(len) {
        Ok(()) => {
            *sending = WtSending::of(&state);
            OK
        }
        Err(error) => tell(error, why),
    }
}

/// Says how many bytes of the last DATA frame are still to be sent.
///
/// Returns `OK` with the number in `owed`, or `INVALID` if no state has `sending`; nothing changes then.
#[unsafe(no_mangle)]
pub extern "C" fn wt_sending_owed(sending: &WtSending, owed: &mut u64) -> i32
    ensures answers { (result ≡ OK) ⊎ (result ≡ INVALID) }
    ensures owed { result ≡ OK → (s : Sending) × HasSending s sending.now
        × (owed.new ≡ s.owed) }
    ensures invalid { result ≡ INVALID → IsNoSending sending.now × (owed.new ≡ owed.old) }
{
    match sending.sending() {
        Some(state) => {
            *owed = state.owed();
            OK
        }
        None => INVALID,
    }
}

/// Ends the message: the stream is to be ended with the last bytes that were written.
///
/// Returns `OK`. Returns `REFUSED` with the reason in `why`: `DataMissing` if bytes of the last DATA
/// frame are still to be sent; `MissingHead` before the head of the message; `ContentTooShort` if there
/// is less content than `content-length` announced; or `Unexpected` after the end. Returns `INVALID` if
/// no state has `sending`. Only `OK` changes `sending`, and only `REFUSED` changes `why`.
#[unsafe(no_mangle)]
pub extern "C" fn wt_sending_finish(sending: &mut WtSending, why: &mut u32) -> i32
    ensures answers { (result ≡ OK) ⊎ ((result ≡ INVALID) ⊎ (result ≡ REFUSED)) }
    ensures sent { result ≡ OK → Leads (λ s t. after_end s ≡ Ok t) sending.old sending.new }
    ensures refused { result ≡ REFUSED
        → Refuses (λ s e. after_end s ≡ Err e) sending.old why.new }
    ensures invalid { result ≡ INVALID → IsNoSending sending.old }
    ensures same { result ≢ OK → sending.new ≡ sending.old }
    ensures why { result ≢ REFUSED → why.new ≡ why.old }
{
    let Some(mut state) = sending.sending() else {
        return INVALID;
    };
    match state.finish() {
        Ok(()) => {
            *sending = WtSending::of(&state);
            OK
        }
        Err(error) => tell(error, why),
    }
}

/// Opens the tunnel or the session, at a client: a 2xx response to the CONNECT request of this stream
/// came. After any other response nothing but the end may be sent.
///
/// Returns `OK`. Returns `REFUSED`, for `Unexpected`, on any other stream and after the first call, and
/// `INVALID` if no state has `sending`. Only `OK` changes `sending`, and only `REFUSED` changes `why`.
#[unsafe(no_mangle)]
pub extern "C" fn wt_sending_connected(sending: &mut WtSending, why: &mut u32) -> i32
    ensures answers { (result ≡ OK) ⊎ ((result ≡ INVALID) ⊎ (result ≡ REFUSED)) }
    ensures sent { result ≡ OK
        → Leads (λ s t. placed s (opens s.place) ≡ Ok t) sending.old sending.new }
    ensures refused { result ≡ REFUSED
        → Refuses (λ s e. placed s (opens s.place) ≡ Err e) sending.old why.new }
    ensures invalid { result ≡ INVALID → IsNoSending sending.old }
    ensures same { result ≢ OK → sending.new ≡ sending.old }
    ensures why { result ≢ REFUSED → why.new ≡ why.old }
{
    let Some(mut state) = sending.sending() else {
        return INVALID;
    };
    match state.connected() {
        Ok(()) => {
            *sending = WtSending::of(&state);
            OK
        }
        Err(error) => tell(error, why),
    }
}
