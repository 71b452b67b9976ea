//! Field sections that refer to QPACK's dynamic table, of an encoder in memory of the caller.
ghost use Rattle.std.specs.Prelude.{◌≡◌, ◌≢◌, ◌⊎◌, ℕ, List, [], length, None, MatchResult};
ghost use Rattle.wtp_sending.specs.declared.error.SendError.{SendError};
ghost use Rattle.wtp_sending.specs.declared.message.Sending.{Sending};
ghost use Rattle.wtp_sending.specs.Encoded.{section_wire, IsEncoded, SendsHeadAs, SendsTrailersAs, RefusesHeadersWith, RefusesTrailersWith};
ghost use Rattle.wt_c.specs.Fields.{AreWithin};
ghost use Rattle.wt_c.specs.Output.{WritesPrefix};
ghost use Rattle.wt_c.specs.Sending.{HasSending, IsNoSending};
ghost use Rattle.wt_c.specs.Encoders.{IsNoEncoder, sends_as, refuses_with, LeadsWith, MayLeadWith, RefusesWith, OneTooShort};
ghost use Rattle.wt_c.specs.Texts.{lines_in};

use crate::connections::beside::put;
use crate::fields::WtField;
use crate::sending::WtSending;
use crate::sending::encoder::{encoder_in, stored};
use crate::sending::lists::list_of;
use crate::sending::messages::Section;
use crate::sending::reasons::refuse;
use crate::status::{BUFFER_TOO_SMALL, INVALID, MEMORY, OK, REFUSED};
use std::alloc::Global;
use wtp_dynamic_encoder::encoder::QpackEncoder;
use wtp_fields::fields::FieldList;
use wtp_sending::error::SendError;
use wtp_sending::message::Sending;

// Returns the HEADERS frame of a section, appends the instructions for the encoder stream, and changes
// the state and the encoder.
fn encode(
    alloc: Global,
    section: Section,
    state: &mut Sending,
    list: &FieldList,
    encoder: &mut QpackEncoder,
    instructions: &mut Vec<u8>,
) -> Result<Vec<u8>, SendError>
    requires { instructions.old.items ≡ [] }
    ensures { MatchResult result
        (λ frame. (bytes : List ℕ) × (frame.items ≡ section_wire bytes)
        × sends_as section list.now bytes state.old state.new
        × IsEncoded state.old.id list.now encoder.old encoder.new [] instructions.new.items bytes)
        (λ e. refuses_with section list.now state.old encoder.old encoder.new instructions.new.items e) }
{
    let mut frame = Vec::new(alloc);
    match section {
        Section::Head => match state.headers_with(alloc, list, encoder, instructions, &mut frame) {
            Ok(()) => Ok(frame),
            Err(error) => Err(error),
        },
        Section::Trailers => match state.trailers_with(
            alloc,
            list,
            encoder,
            instructions,
            &mut frame,
        ) {
            Ok(()) => Ok(frame),
            Err(error) => Err(error),
        },
    }
}

// Writes bytes to the starts of two outputs.
//
// Returns `OK`, or `BUFFER_TOO_SMALL` if one of them is too short; both are then unchanged. In both cases
// the sizes are the numbers of bytes.
fn write_both(
    first: &[u8],
    second: &[u8],
    first_out: &mut [u8],
    first_used: &mut usize,
    second_out: &mut [u8],
    second_used: &mut usize,
) -> i32
    ensures answers { (result ≡ OK) ⊎ (result ≡ BUFFER_TOO_SMALL) }
    ensures first { result ≡ OK → WritesPrefix first.now first_out.old first_out.new first_used.new }
    ensures second { result ≡ OK
        → WritesPrefix second.now second_out.old second_out.new second_used.new }
    ensures room { result ≡ BUFFER_TOO_SMALL → OneTooShort first.now second.now first_out.old
        first_out.new second_out.old second_out.new first_used.new second_used.new }
{
    *first_used = first.len();
    *second_used = second.len();
    if first_out.len() < first.len() || second_out.len() < second.len() {
        return BUFFER_TOO_SMALL;
    }
    put(first, first_out);
    put(second, second_out);
    OK
}

// Writes a field section that may refer to the table.
fn send_encoded(
    alloc: Global,
    section: Section,
    sending: &mut WtSending,
    encoder: &mut [u8],
    fields: &[WtField],
    texts: &[u8],
    instructions: &mut [u8],
    instructions_used: &mut usize,
    out: &mut [u8],
    used: &mut usize,
    why: &mut u32,
) -> i32
    ensures answers { (result ≡ OK) ⊎ ((result ≡ BUFFER_TOO_SMALL) ⊎ ((result ≡ INVALID)
        ⊎ ((result ≡ MEMORY) ⊎ (result ≡ REFUSED)))) }
    ensures sent { result ≡ OK → AreWithin (length texts.now) fields.now
        × (orders : List ℕ) × (bytes : List ℕ)
        × LeadsWith (sends_as section (lines_in texts.now fields.now)) (lines_in texts.now fields.now)
        sending.old sending.new encoder.old encoder.new orders bytes
        × WritesPrefix orders instructions.old instructions.new instructions_used.new
        × WritesPrefix (section_wire bytes) out.old out.new used.new }
    ensures room { result ≡ BUFFER_TOO_SMALL → AreWithin (length texts.now) fields.now
        × (orders : List ℕ) × (bytes : List ℕ)
        × MayLeadWith (sends_as section (lines_in texts.now fields.now)) (lines_in texts.now fields.now)
        sending.old encoder.old orders bytes
        × OneTooShort orders (section_wire bytes) instructions.old instructions.new out.old out.new
        instructions_used.new used.new }
    ensures refused { result ≡ REFUSED → AreWithin (length texts.now) fields.now
        × RefusesWith (refuses_with section (lines_in texts.now fields.now)) sending.old encoder.old
        why.new }
    ensures invalid { result ≡ INVALID → AreWithin (length texts.now) fields.now
        → IsNoSending sending.old ⊎ IsNoEncoder encoder.old }
    ensures memory { result ≡ MEMORY → AreWithin (length texts.now) fields.now
        × (s : Sending) × HasSending s sending.old }
    ensures same { result ≢ OK → (sending.new ≡ sending.old) × (encoder.new ≡ encoder.old)
        × (instructions.new ≡ instructions.old) × (out.new ≡ out.old) }
    ensures used { result ≢ OK → result ≢ BUFFER_TOO_SMALL
        → (instructions_used.new ≡ instructions_used.old) × (used.new ≡ used.old) }
    ensures why { result ≢ REFUSED → why.new ≡ why.old }
{
    let Some(mut state) = sending.sending() else {
        return INVALID;
    };
    let list = match list_of(alloc, fields, texts) {
        Ok(list) => list,
        Err(rejection) => return rejection.answer(),
    };
    let mut own = match encoder_in(alloc, encoder) {
        Ok(own) => own,
        Err(rejection) => return rejection.answer(),
    };
    let mut orders = Vec::new(alloc);
    let frame = match encode(alloc, section, &mut state, &list, &mut own, &mut orders) {
        Ok(frame) => frame,
        Err(error) => return refuse(error, why),
    };
    let Ok(bytes) = stored(alloc, &own) else {
        return MEMORY;
    };
    let answer = write_both(
        orders.as_slice(),
        frame.as_slice(),
        instructions,
        instructions_used,
        out,
        used,
    );
    if answer != OK {
        return answer;
    }
    put(bytes.as_slice(), encoder);
    *sending = WtSending::of(&state);
    OK
}

/// Writes the HEADERS frame of a request, of an interim response or of the final one to the start of
/// `out`, as `wt_sending_headers` does it, in a section that may refer to the dynamic table of the encoder
/// in `encoder`. The instructions for the own encoder stream (RFC 9204, section 4.3) are written to the
/// start of `instructions`.
///
/// Returns `OK` with both sizes, and changes `sending` and the encoder. Returns `BUFFER_TOO_SMALL` if one
/// of the two outputs is too short; both sizes are then those that are needed. Returns `INVALID` also if
/// no encoder is in `encoder`, and otherwise what `wt_sending_headers` returns. Nothing else changes.
#[unsafe(no_mangle)]
pub extern "C" fn wt_sending_headers_with(
    alloc: Global,
    sending: &mut WtSending,
    encoder: &mut [u8],
    fields: &[WtField],
    texts: &[u8],
    instructions: &mut [u8],
    instructions_used: &mut usize,
    out: &mut [u8],
    used: &mut usize,
    why: &mut u32,
) -> i32
    ensures answers { (result ≡ OK) ⊎ ((result ≡ BUFFER_TOO_SMALL) ⊎ ((result ≡ INVALID)
        ⊎ ((result ≡ MEMORY) ⊎ (result ≡ REFUSED)))) }
    ensures sent { result ≡ OK → AreWithin (length texts.now) fields.now
        × (orders : List ℕ) × (bytes : List ℕ)
        × LeadsWith (λ section s t. SendsHeadAs section s (lines_in texts.now fields.now) t)
        (lines_in texts.now fields.now) sending.old sending.new encoder.old encoder.new orders bytes
        × WritesPrefix orders instructions.old instructions.new instructions_used.new
        × WritesPrefix (section_wire bytes) out.old out.new used.new }
    ensures room { result ≡ BUFFER_TOO_SMALL → AreWithin (length texts.now) fields.now
        × (orders : List ℕ) × (bytes : List ℕ)
        × MayLeadWith (λ section s t. SendsHeadAs section s (lines_in texts.now fields.now) t)
        (lines_in texts.now fields.now) sending.old encoder.old orders bytes
        × OneTooShort orders (section_wire bytes) instructions.old instructions.new out.old out.new
        instructions_used.new used.new }
    ensures refused { result ≡ REFUSED → AreWithin (length texts.now) fields.now
        × RefusesWith (λ s d f orders e. RefusesHeadersWith s (lines_in texts.now fields.now) d f []
        orders None e) sending.old encoder.old why.new }
    ensures invalid { result ≡ INVALID → AreWithin (length texts.now) fields.now
        → IsNoSending sending.old ⊎ IsNoEncoder encoder.old }
    ensures memory { result ≡ MEMORY → AreWithin (length texts.now) fields.now
        × (s : Sending) × HasSending s sending.old }
    ensures same { result ≢ OK → (sending.new ≡ sending.old) × (encoder.new ≡ encoder.old)
        × (instructions.new ≡ instructions.old) × (out.new ≡ out.old) }
    ensures used { result ≢ OK → result ≢ BUFFER_TOO_SMALL
        → (instructions_used.new ≡ instructions_used.old) × (used.new ≡ used.old) }
    ensures why { result ≢ REFUSED → why.new ≡ why.old }
{
    send_encoded(
        alloc,
        Section::Head,
        sending,
        encoder,
        fields,
        texts,
        instructions,
        instructions_used,
        out,
        used,
        why,
    )
}

/// Writes the HEADERS frame of trailers, as `wt_sending_trailers` does it, in a section that may refer to
/// the dynamic table of the encoder in `encoder`, as `wt_sending_headers_with` does it.
///
/// Returns the answers of the two.
#[unsafe(no_mangle)]
pub extern "C" fn wt_sending_trailers_with(
    alloc: Global,
    sending: &mut WtSending,
    encoder: &mut [u8],
    fields: &[WtField],
    texts: &[u8],
    instructions: &mut [u8],
    instructions_used: &mut usize,
    out: &mut [u8],
    used: &mut usize,
    why: &mut u32,
) -> i32
    ensures answers { (result ≡ OK) ⊎ ((result ≡ BUFFER_TOO_SMALL) ⊎ ((result ≡ INVALID)
        ⊎ ((result ≡ MEMORY) ⊎ (result ≡ REFUSED)))) }
    ensures sent { result ≡ OK → AreWithin (length texts.now) fields.now
        × (orders : List ℕ) × (bytes : List ℕ)
        × LeadsWith (λ section s t. SendsTrailersAs section s (lines_in texts.now fields.now) t)
        (lines_in texts.now fields.now) sending.old sending.new encoder.old encoder.new orders bytes
        × WritesPrefix orders instructions.old instructions.new instructions_used.new
        × WritesPrefix (section_wire bytes) out.old out.new used.new }
    ensures room { result ≡ BUFFER_TOO_SMALL → AreWithin (length texts.now) fields.now
        × (orders : List ℕ) × (bytes : List ℕ)
        × MayLeadWith (λ section s t. SendsTrailersAs section s (lines_in texts.now fields.now) t)
        (lines_in texts.now fields.now) sending.old encoder.old orders bytes
        × OneTooShort orders (section_wire bytes) instructions.old instructions.new out.old out.new
        instructions_used.new used.new }
    ensures refused { result ≡ REFUSED → AreWithin (length texts.now) fields.now
        × RefusesWith (λ s d f orders e. RefusesTrailersWith s (lines_in texts.now fields.now) d f []
        orders None e) sending.old encoder.old why.new }
    ensures invalid { result ≡ INVALID → AreWithin (length texts.now) fields.now
        → IsNoSending sending.old ⊎ IsNoEncoder encoder.old }
    ensures memory { result ≡ MEMORY → AreWithin (length texts.now) fields.now
        × (s : Sending) × HasSending s sending.old }
    ensures same { result ≢ OK → (sending.new ≡ sending.old) × (encoder.new ≡ encoder.old)
        × (instructions.new ≡ instructions.old) × (out.new ≡ out.old) }
    ensures used { result ≢ OK → result ≢ BUFFER_TOO_SMALL
        → (instructions_used.new ≡ instructions_used.old) × (used.new ≡ used.old) }
    ensures why { result ≢ REFUSED → why.new ≡ why.old }
{
    send_encoded(
        alloc,
        Section::Trailers,
        sending,
        encoder,
        fields,
        texts,
        instructions,
        instructions_used,
        out,
        used,
        why,
    )
}
