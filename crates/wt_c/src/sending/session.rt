//! What is sent of a session: the heads of its streams and datagrams, and its capsules.
ghost use Rattle.std.specs.Prelude.{◌≡◌, ◌≢◌, ◌⊎◌, ◌≤◌, Ok, Err, length, take, IsUtf8, MatchResult};
ghost use Rattle.wtp_sending.specs.declared.message.Sending.{Sending};
ghost use Rattle.wtp_sending.specs.declared.error.SendError.{SendError};
ghost use Rattle.wtp_sending.specs.Session.{in_session, uni_head, bi_head, datagram_head, drain_wire, after_close};
ghost use Rattle.wt_c.specs.Output.{WritesPrefix, TooShort};
ghost use Rattle.wt_c.specs.Sending.{HasSending, IsNoSending};
ghost use Rattle.wt_c.specs.SendingCalls.{Leads, MayLead, Refuses, close_frame, piece_bytes};

use crate::output::write_bytes;
use crate::sending::WtSending;
use crate::sending::reasons::{refuse, tell};
use crate::status::{BUFFER_TOO_SMALL, INVALID, MEMORY, OK, REFUSED};
use std::alloc::Global;
use wtp_core::bytes::BufferWriter;
use wtp_sending::error::SendError;
use wtp_sending::message::Sending;

/// What is sent of an open session, and leaves it open.
#[derive(Clone, Copy)]
pub(crate) enum Piece {
    /// The first bytes of a unidirectional stream.
    Unidirectional,
    /// The first bytes of a bidirectional stream.
    Bidirectional,
    /// The first bytes of a datagram.
    Datagram,
    /// The capsule that announces the end of the session.
    Drain,
}

impl Piece {
    // Puts the bytes into the room, and returns their number.
    #[tactic(auto, using(crate::proofs::SendingLemmas::uni_fails, crate::proofs::SendingLemmas::bi_fails, crate::proofs::SendingLemmas::datagram_fails, crate::proofs::SendingLemmas::drain_fails))]
    fn put(self, state: &Sending, room: &mut [u8]) -> Result<usize, SendError>
        requires { length room.old ≡ 24 }
        ensures { MatchResult result
            (λ n. (take n room.new ≡ piece_bytes self state.now.id) × (n ≤ length room.new)
            × (in_session state.now.place ≡ Ok tt))
            (λ e. in_session state.now.place ≡ Err e) }
    {
        let mut writer = BufferWriter::new(room);
        match self {
            Piece::Unidirectional => match state.unidirectional(&mut writer) {
                Ok(()) => Ok(writer.offset()),
                Err(error) => Err(error),
            },
            Piece::Bidirectional => match state.bidirectional(&mut writer) {
                Ok(()) => Ok(writer.offset()),
                Err(error) => Err(error),
            },
            Piece::Datagram => match state.datagram(&mut writer) {
                Ok(()) => Ok(writer.offset()),
                Err(error) => Err(error),
            },
            Piece::Drain => match state.drain(&mut writer) {
                Ok(()) => Ok(writer.offset()),
                Err(error) => Err(error),
            },
        }
    }
}

// Writes what is sent of a session.
fn send_piece(
    piece: Piece,
    sending: &WtSending,
    out: &mut [u8],
    used: &mut usize,
    why: &mut u32,
) -> i32
    ensures answers { (result ≡ OK) ⊎ ((result ≡ BUFFER_TOO_SMALL) ⊎ ((result ≡ INVALID)
        ⊎ (result ≡ REFUSED))) }
    ensures sent { result ≡ OK → (s : Sending) × HasSending s sending.now
        × (in_session s.place ≡ Ok tt)
        × WritesPrefix (piece_bytes piece s.id) out.old out.new used.new }
    ensures room { result ≡ BUFFER_TOO_SMALL → (s : Sending) × HasSending s sending.now
        × (in_session s.place ≡ Ok tt)
        × TooShort (piece_bytes piece s.id) out.old out.new used.new }
    ensures refused { result ≡ REFUSED
        → Refuses (λ s e. in_session s.place ≡ Err e) sending.now why.new }
    ensures invalid { result ≡ INVALID → IsNoSending sending.now }
    ensures same { result ≢ OK → out.new ≡ out.old }
    ensures used { result ≢ OK → result ≢ BUFFER_TOO_SMALL → used.new ≡ used.old }
    ensures why { result ≢ REFUSED → why.new ≡ why.old }
{
    let Some(state) = sending.sending() else {
        return INVALID;
    };
    let mut bytes = [0; 24];
    match piece.put(&state, &mut bytes) {
        Ok(size) => write_bytes(&bytes[..size], out, used),
        Err(error) => tell(error, why),
    }
}

/// Writes the first bytes of a unidirectional stream of the session of this stream to the start of `out`;
/// those of the application come after them (draft-ietf-webtrans-http3-02, section 4.1). It does not
/// allocate.
///
/// Returns `OK` with their number, at most 10, in `used`. Returns `BUFFER_TOO_SMALL` if `out` is shorter
/// than that number, which `used` then is. Returns `REFUSED`, for `Unexpected`, if the session is not
/// open: its request was not answered with a 2xx status, or this end closed it. Returns `INVALID` if no
/// state has `sending`. Nothing else changes.
#[unsafe(no_mangle)]
pub extern "C" fn wt_sending_unidirectional(
    sending: &WtSending,
    out: &mut [u8],
    used: &mut usize,
    why: &mut u32,
) -> i32
    ensures answers { (result ≡ OK) ⊎ ((result ≡ BUFFER_TOO_SMALL) ⊎ ((result ≡ INVALID)
        ⊎ (result ≡ REFUSED))) }
    ensures sent { result ≡ OK → (s : Sending) × HasSending s sending.now
        × (in_session s.place ≡ Ok tt) × WritesPrefix (uni_head s.id) out.old out.new used.new }
    ensures room { result ≡ BUFFER_TOO_SMALL → (s : Sending) × HasSending s sending.now
        × (in_session s.place ≡ Ok tt) × TooShort (uni_head s.id) out.old out.new used.new }
    ensures refused { result ≡ REFUSED
        → Refuses (λ s e. in_session s.place ≡ Err e) sending.now why.new }
    ensures invalid { result ≡ INVALID → IsNoSending sending.now }
    ensures same { result ≢ OK → out.new ≡ out.old }
    ensures used { result ≢ OK → result ≢ BUFFER_TOO_SMALL → used.new ≡ used.old }
    ensures why { result ≢ REFUSED → why.new ≡ why.old }
{
    send_piece(Piece::Unidirectional, sending, out, used, why)
}

/// Writes the first bytes of a bidirectional stream of the session of this stream to the start of `out`;
/// those of the application come after them (draft-ietf-webtrans-http3-02, section 4.2). It does not
/// allocate.
///
/// Returns the answers of `wt_sending_unidirectional`.
#[unsafe(no_mangle)]
pub extern "C" fn wt_sending_bidirectional(
    sending: &WtSending,
    out: &mut [u8],
    used: &mut usize,
    why: &mut u32,
) -> i32
    ensures answers { (result ≡ OK) ⊎ ((result ≡ BUFFER_TOO_SMALL) ⊎ ((result ≡ INVALID)
        ⊎ (result ≡ REFUSED))) }
    ensures sent { result ≡ OK → (s : Sending) × HasSending s sending.now
        × (in_session s.place ≡ Ok tt) × WritesPrefix (bi_head s.id) out.old out.new used.new }
    ensures room { result ≡ BUFFER_TOO_SMALL → (s : Sending) × HasSending s sending.now
        × (in_session s.place ≡ Ok tt) × TooShort (bi_head s.id) out.old out.new used.new }
    ensures refused { result ≡ REFUSED
        → Refuses (λ s e. in_session s.place ≡ Err e) sending.now why.new }
    ensures invalid { result ≡ INVALID → IsNoSending sending.now }
    ensures same { result ≢ OK → out.new ≡ out.old }
    ensures used { result ≢ OK → result ≢ BUFFER_TOO_SMALL → used.new ≡ used.old }
    ensures why { result ≢ REFUSED → why.new ≡ why.old }
{
    send_piece(Piece::Bidirectional, sending, out, used, why)
}

/// Writes the first bytes of a datagram of the session of this stream to the start of `out`, its quarter
/// stream ID; the payload is all that follows (RFC 9297, section 2.1). It does not allocate.
///
/// Returns the answers of `wt_sending_unidirectional`. The number of bytes is at most 8.
#[unsafe(no_mangle)]
pub extern "C" fn wt_sending_datagram(
    sending: &WtSending,
    out: &mut [u8],
    used: &mut usize,
    why: &mut u32,
) -> i32
    ensures answers { (result ≡ OK) ⊎ ((result ≡ BUFFER_TOO_SMALL) ⊎ ((result ≡ INVALID)
        ⊎ (result ≡ REFUSED))) }
    ensures sent { result ≡ OK → (s : Sending) × HasSending s sending.now
        × (in_session s.place ≡ Ok tt) × WritesPrefix (datagram_head s.id) out.old out.new used.new }
    ensures room { result ≡ BUFFER_TOO_SMALL → (s : Sending) × HasSending s sending.now
        × (in_session s.place ≡ Ok tt) × TooShort (datagram_head s.id) out.old out.new used.new }
    ensures refused { result ≡ REFUSED
        → Refuses (λ s e. in_session s.place ≡ Err e) sending.now why.new }
    ensures invalid { result ≡ INVALID → IsNoSending sending.now }
    ensures same { result ≢ OK → out.new ≡ out.old }
    ensures used { result ≢ OK → result ≢ BUFFER_TOO_SMALL → used.new ≡ used.old }
    ensures why { result ≢ REFUSED → why.new ≡ why.old }
{
    send_piece(Piece::Datagram, sending, out, used, why)
}

/// Writes a DATA frame with the capsule that says that the session is to be closed soon to the start of
/// `out`, for this stream (draft-ietf-webtrans-http3-07, section 4.6). Everything may be sent as before.
/// It does not allocate.
///
/// Returns the answers of `wt_sending_unidirectional`. The number of bytes is 7.
#[unsafe(no_mangle)]
pub extern "C" fn wt_sending_drain(
    sending: &WtSending,
    out: &mut [u8],
    used: &mut usize,
    why: &mut u32,
) -> i32
    ensures answers { (result ≡ OK) ⊎ ((result ≡ BUFFER_TOO_SMALL) ⊎ ((result ≡ INVALID)
        ⊎ (result ≡ REFUSED))) }
    ensures sent { result ≡ OK → (s : Sending) × HasSending s sending.now
        × (in_session s.place ≡ Ok tt) × WritesPrefix drain_wire out.old out.new used.new }
    ensures room { result ≡ BUFFER_TOO_SMALL → (s : Sending) × HasSending s sending.now
        × (in_session s.place ≡ Ok tt) × TooShort drain_wire out.old out.new used.new }
    ensures refused { result ≡ REFUSED
        → Refuses (λ s e. in_session s.place ≡ Err e) sending.now why.new }
    ensures invalid { result ≡ INVALID → IsNoSending sending.now }
    ensures same { result ≢ OK → out.new ≡ out.old }
    ensures used { result ≢ OK → result ≢ BUFFER_TOO_SMALL → used.new ≡ used.old }
    ensures why { result ≢ REFUSED → why.new ≡ why.old }
{
    send_piece(Piece::Drain, sending, out, used, why)
}

// Returns the DATA frame with the capsule that closes the session, and changes the state.
#[tactic(auto, unfolding(crate::specs::SendingCalls::close_frame))]
fn close_bytes(
    alloc: Global,
    state: &mut Sending,
    code: u32,
    reason: &str,
) -> Result<Vec<u8>, SendError>
    ensures { MatchResult result
        (λ bytes. (bytes.items ≡ close_frame code reason.now)
        × (after_close state.old reason.now ≡ Ok state.new))
        (λ e. e ≢ SendError.Memory → after_close state.old reason.now ≡ Err e) }
{
    let mut bytes = Vec::new(alloc);
    match state.close(alloc, code, reason, &mut bytes) {
        Ok(()) => Ok(bytes),
        Err(error) => Err(error),
    }
}

/// Writes a DATA frame with the capsule that closes the session to the start of `out`, for this stream,
/// with a code and a reason of the application (draft-ietf-webtrans-http3-02, section 5). The stream is
/// to be ended with it, and the streams of the session are to be reset. The reason is UTF-8.
///
/// Returns `OK` with the size of the frame in `used`, and changes `sending`. Returns `BUFFER_TOO_SMALL`
/// if `out` is shorter than that size, which `used` then is. Returns `REFUSED` with the reason in `why`:
/// `Unexpected` if the session is not open, or `TooLarge` for a reason of more than 1024 bytes. Returns
/// `INVALID` if no state has `sending`, or if the reason is not UTF-8; and `MEMORY` if allocation failed.
/// Nothing else changes.
#[unsafe(no_mangle)]
pub extern "C" fn wt_sending_close(
    alloc: Global,
    sending: &mut WtSending,
    code: u32,
    reason: &[u8],
    out: &mut [u8],
    used: &mut usize,
    why: &mut u32,
) -> i32
    ensures answers { (result ≡ OK) ⊎ ((result ≡ BUFFER_TOO_SMALL) ⊎ ((result ≡ INVALID)
        ⊎ ((result ≡ MEMORY) ⊎ (result ≡ REFUSED)))) }
    ensures sent { result ≡ OK
        → Leads (λ s t. after_close s reason.now ≡ Ok t) sending.old sending.new
        × WritesPrefix (close_frame code reason.now) out.old out.new used.new }
    ensures room { result ≡ BUFFER_TOO_SMALL
        → MayLead (λ s t. after_close s reason.now ≡ Ok t) sending.old
        × TooShort (close_frame code reason.now) out.old out.new used.new }
    ensures refused { result ≡ REFUSED
        → Refuses (λ s e. after_close s reason.now ≡ Err e) sending.old why.new }
    ensures invalid { result ≡ INVALID → IsNoSending sending.old ⊎ (¬ (IsUtf8 reason.now)) }
    ensures valid { result ≢ INVALID → IsUtf8 reason.now
        × (s : Sending) × HasSending s sending.old }
    ensures same { result ≢ OK → (sending.new ≡ sending.old) × (out.new ≡ out.old) }
    ensures used { result ≢ OK → result ≢ BUFFER_TOO_SMALL → used.new ≡ used.old }
    ensures why { result ≢ REFUSED → why.new ≡ why.old }
{
    let Some(mut state) = sending.sending() else {
        return INVALID;
    };
    let Ok(text) = str::from_utf8(reason) else {
        return INVALID;
    };
    match close_bytes(alloc, &mut state, code, text) {
        Ok(bytes) => sending.give(bytes.as_slice(), &state, out, used),
        Err(error) => refuse(error, why),
    }
}
