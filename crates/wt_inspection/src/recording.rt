//! What the next bytes of a recording are.
ghost use Rattle.std.specs.Prelude.{◌≡◌, ◌+◌, ◌^◌, ◌≤◌, ◌<◌, ◌==◌, IfOk, Ok, codes, length, option_map};
ghost use Rattle.wt_inspection.specs.Recording.{EndsInspection, IsCutAt, IsNext};
ghost use Rattle.wt_inspection.specs.Recording.{IsPushHead, IsSessionHead, is_push};
ghost use Rattle.wt_inspection.specs.Recording.{IsStep, Moves, after_head, has_session};
ghost use Rattle.wt_inspection.specs.DataCapsules.{Stage};
ghost use Rattle.wt_inspection.specs.Resolved.{ContentWith, HasNoSection};
ghost use Rattle.wt_inspection.specs.Walks.{IsStageAt, LeadsAt};
ghost use Rattle.wtp_wire.specs.StreamKind.{stream_kind_of};

use crate::capsules::next_capsule;
use crate::fields::{read_section, section_then};
use crate::frames::next_frame;
use crate::insertions::Insertions;
use crate::instructions::{next_acknowledgment, next_insertion};
use crate::message::warn_of_section;
use crate::reading::{
    Next, Reading, Recorded, Step, Then, cut, end_after, end_at, end_of_nothing, fault,
};
use crate::settings::{read_settings, settings_then, warn_of_settings};
use std::alloc::{AllocError, Global};
use wt_inspection_model::item::{Content, DatagramHead, End, Rule, StreamHead, StreamName};
use wtp_core::bytes::get::varint_len_needed;
use wtp_core::error::ErrorCode;
use wtp_core::ids::SessionId;
use wtp_core::varint::{VarInt, first_varint};
use wtp_wire::datagram::Datagram;
use wtp_wire::head::{first_pair, missing_bytes};
use wtp_wire::rules::StreamRole;
use wtp_wire::stream_header::StreamKind;

/// Returns how these bytes end, if this follows their last item.
pub(crate) fn end_of(
    reading: &Reading,
    kind: Recorded,
    open: bool,
    state: Then,
    bytes: &[u8],
) -> End
    ensures { (stage : Stage) → IsStageAt state reading.now.phase stage
        → EndsInspection kind «open» (length bytes.now == 0) state stage result }
{
    match state {
        Err(stop) => end_at(kind, open, stop),
        Ok(_) => {
            if bytes.is_empty() {
                end_of_nothing(kind)
            } else {
                end_after(kind, open, reading.finish())
            }
        }
    }
}

/// Returns the next item. After the end of the reading it is all bytes that are left.
pub(crate) fn next_step(
    reading: &mut Reading,
    sent: Option<&Insertions<'_>>,
    state: Then,
    at: usize,
    rest: &[u8],
) -> Result<Step, AllocError>
    requires some { 0 < length rest.now }
    requires place { at + length rest.now < 2 ^ 64 }
    ensures within { IfOk result (λ s. s.length ≤ length rest.now) }
    ensures some { IfOk result (λ s. 0 < s.length) }
    ensures read { IfOk result (λ s. IsStep state at rest.now s.length s.content s.after) }
    ensures stage { IfOk result (λ s. LeadsAt state reading.old.phase reading.new.phase
        (Moves state at rest.now s.content s.after) s.after) }
    ensures sections { IfOk result (λ s. ContentWith (option_map (λ i. i.now) sent.entry) rest.now
        s.content) }
{
    match state {
        Ok(next) => next_item(reading, sent, next, at, rest),
        Err(end) => Ok(Step::last(rest.len(), Content::Unread, end)),
    }
}

/// Returns the next item, as long as the reading goes on.
#[tactic(auto, using(crate::proofs::ResolvedLemmas::plain_content))]
#[inline(always)]
fn next_item(
    reading: &mut Reading,
    sent: Option<&Insertions<'_>>,
    next: Next,
    at: usize,
    rest: &[u8],
) -> Result<Step, AllocError>
    requires some { 0 < length rest.now }
    requires place { at + length rest.now < 2 ^ 64 }
    ensures within { IfOk result (λ s. s.length ≤ length rest.now) }
    ensures some { IfOk result (λ s. 0 < s.length) }
    ensures read { IfOk result (λ s. IsNext next at rest.now s.length s.content s.after) }
    ensures stage { IfOk result (λ s. LeadsAt (Ok next) reading.old.phase reading.new.phase
        (Moves (Ok next) at rest.now s.content s.after) s.after) }
    ensures sections { IfOk result (λ s. ContentWith (option_map (λ i. i.now) sent.entry) rest.now
        s.content) }
{
    match next {
        Next::Head => head_item(reading, at, rest),
        Next::Frames(role, first) => next_frame(reading, sent, role, first, at, rest),
        Next::Payload => Ok(Step::go_on(rest.len(), Content::Payload, Next::Payload)),
        Next::Encoder => next_insertion(reading.alloc, at, rest),
        Next::Decoder => Ok(next_acknowledgment(at, rest)),
        Next::Capsules => next_capsule(reading, at, rest),
        Next::Datagram => Ok(datagram_step(at, rest)),
        Next::Section => section_step(reading, sent, at, rest),
        Next::Settings => settings_step(reading, at, rest),
    }
}

/// Returns the head of a unidirectional stream, and notes its type.
fn head_item(reading: &mut Reading, at: usize, rest: &[u8]) -> Result<Step, AllocError>
    requires { 0 < length rest.now }
    ensures within { IfOk result (λ s. s.length ≤ length rest.now) }
    ensures some { IfOk result (λ s. 0 < s.length) }
    ensures read { IfOk result (λ s. IsNext Next.Head at rest.now s.length s.content s.after) }
    ensures phase { IfOk result (λ _. reading.new.phase ≡ reading.old.phase) }
    ensures sections { IfOk result (λ s. HasNoSection s.content) }
{
    note_head(reading, at, rest)?;
    Ok(head_step(at, rest))
}

/// Notes the type of a unidirectional stream. Hints that the bytes may be those of a bidirectional
/// one: the first byte of HEADERS is that of a push stream too.
fn note_head(reading: &mut Reading, at: usize, rest: &[u8]) -> Result<(), AllocError>
    ensures { IfOk result (λ _. reading.new.phase ≡ reading.old.phase) }
{
    let Some((number, _)) = first_varint(rest) else {
        return Ok(());
    };
    reading.past.stream = StreamKind::parse(number);
    let hint = if StreamName::of(number) == StreamName::Push
        && reads_as_headers(reading.alloc, rest)?
    {
        Some(Rule::LikeMessage)
    } else {
        None
    };
    reading.warn(at, hint)
}

/// Returns whether the first frame of these bytes is complete, and a field section that begins with
/// a pseudo-header field.
fn reads_as_headers(alloc: Global, bytes: &[u8]) -> Result<bool, AllocError> {
    let Some(pair) = first_pair(bytes) else {
        return Ok(false);
    };
    let (_, rest) = bytes.split_at(pair.size);
    let announced = pair.second.into_inner();
    if announced > rest.len() as u64 {
        return Ok(false);
    }
    let (payload, _) = rest.split_at(announced as usize);
    let section = read_section(alloc, None, payload)?;
    Ok(match section.lines.first() {
        Some(line) => line.name.first() == Some(&b':'),
        None => false,
    })
}

/// Returns the head of a unidirectional stream (RFC 9114, section 6.2).
#[tactic(auto, using(crate::proofs::RecordingLemmas::no_head_cut))]
fn head_step(at: usize, rest: &[u8]) -> Step
    requires { 0 < length rest.now }
    ensures within { result.length ≤ length rest.now }
    ensures some { 0 < result.length }
    ensures read { IsNext Next.Head at rest.now result.length result.content result.after }
    ensures sections { HasNoSection result.content }
{
    let Some((number, size)) = first_varint(rest) else {
        let missing = varint_len_needed(rest).saturating_sub(rest.len());
        return Step::last(rest.len(), Content::Unread, cut_head(at, missing));
    };
    if has_session(number) {
        return session_head(at, rest);
    }
    if is_push(number) {
        return push_head(at, rest);
    }
    let head = StreamHead {
        number: number.into_inner(),
        name: StreamName::of(number),
        session: None,
        push: None,
    };
    Step::go_on(size, Content::Stream(head), after_head(number))
}

/// Returns whether a session ID follows the type of a unidirectional stream.
fn has_session(number: VarInt) -> bool
    ensures { result ≡ has_session (stream_kind_of number) }
{
    match StreamKind::parse(number) {
        Some(StreamKind::WebTransport) => true,
        Some(StreamKind::Control) => false,
        Some(StreamKind::QPackEncoder) => false,
        Some(StreamKind::QPackDecoder) => false,
        Some(StreamKind::Exercise(_)) => false,
        None => false,
    }
}

/// Returns what follows the type of a unidirectional stream.
fn after_head(number: VarInt) -> Next
    ensures { result ≡ after_head (stream_kind_of number) }
{
    match StreamKind::parse(number) {
        Some(StreamKind::Control) => Next::Frames(StreamRole::UniRemote, true),
        Some(StreamKind::WebTransport) => Next::Payload,
        Some(StreamKind::QPackEncoder) => Next::Encoder,
        Some(StreamKind::QPackDecoder) => Next::Decoder,
        Some(StreamKind::Exercise(_)) => Next::Payload,
        None => Next::Payload,
    }
}

/// Returns whether a push ID follows the type of a unidirectional stream.
fn is_push(number: VarInt) -> bool
    ensures { result ≡ is_push number }
{
    number.into_inner() == 1
}

/// Returns the head of a push stream, after which a response follows (RFC 9114, section 4.6).
fn push_head(at: usize, rest: &[u8]) -> Step
    requires nonempty { 0 < length rest.now }
    ensures within { result.length ≤ length rest.now }
    ensures some { 0 < result.length }
    ensures read { IsPushHead at rest.now result.length result.content result.after }
    ensures sections { HasNoSection result.content }
{
    let Some(pair) = first_pair(rest) else {
        return Step::last(
            rest.len(),
            Content::Unread,
            cut_head(at, missing_bytes(rest)),
        );
    };
    let head = StreamHead {
        number: pair.first.into_inner(),
        name: StreamName::of(pair.first),
        session: None,
        push: Some(pair.second.into_inner()),
    };
    let next = Next::Frames(StreamRole::BiLocal, true);
    Step::go_on(pair.size, Content::Stream(head), next)
}

/// Returns the head of a WebTransport stream (draft-ietf-webtrans-http3-02, section 4.1).
#[tactic(auto, using(crate::proofs::RecordingLemmas::no_session_cut, crate::proofs::RecordingLemmas::no_session_id))]
fn session_head(at: usize, rest: &[u8]) -> Step
    requires nonempty { 0 < length rest.now }
    ensures within { result.length ≤ length rest.now }
    ensures some { 0 < result.length }
    ensures read { IsSessionHead at rest.now result.length result.content result.after }
    ensures sections { HasNoSection result.content }
{
    let Some(pair) = first_pair(rest) else {
        return Step::last(
            rest.len(),
            Content::Unread,
            cut_head(at, missing_bytes(rest)),
        );
    };
    let Ok(session) = SessionId::try_from_varint(pair.second) else {
        let why = "a session ID is a multiple of 4 (draft-ietf-webtrans-http3-02, section 4)";
        return Step::last(rest.len(), Content::Unread, fault(at, ErrorCode::Id, why));
    };
    let head = StreamHead {
        number: pair.first.into_inner(),
        name: StreamName::of(pair.first),
        session: Some(session.into_u64()),
        push: None,
    };
    Step::go_on(pair.size, Content::Stream(head), Next::Payload)
}

/// Returns the end within the head of a unidirectional stream, which may end there (RFC 9114,
/// section 6.2).
fn cut_head(at: usize, missing: usize) -> End
    ensures { IsCutAt at (codes "stream type") missing result }
{
    cut(at, "stream type", missing as u64)
}

/// Returns the only item of a datagram (RFC 9297, section 2.1).
fn datagram_step(at: usize, rest: &[u8]) -> Step
    ensures length { result.length ≡ length rest.now }
    ensures read { IsNext Next.Datagram at rest.now result.length result.content result.after }
    ensures sections { HasNoSection result.content }
{
    match Datagram::read(rest) {
        Ok(datagram) => {
            let head = DatagramHead {
                quarter: datagram.qstream_id().into_u64(),
                session: datagram.qstream_id().into_session_id().into_u64(),
                payload: datagram.payload().len(),
            };
            Step::go_on(rest.len(), Content::Datagram(head), Next::Datagram)
        }
        Err(code) => {
            let why = "a quarter stream ID is below 2^60 (RFC 9297, section 2.1)";
            Step::last(rest.len(), Content::Unread, fault(at, code, why))
        }
    }
}

/// Returns the only item of a field section.
fn section_step(
    reading: &mut Reading,
    sent: Option<&Insertions<'_>>,
    at: usize,
    rest: &[u8],
) -> Result<Step, AllocError>
    ensures length { IfOk result (λ s. s.length ≡ length rest.now) }
    ensures read { IfOk result (λ s. IsNext Next.Section at rest.now s.length s.content s.after) }
    ensures phase { IfOk result (λ _. reading.new.phase ≡ reading.old.phase) }
    ensures sections { IfOk result (λ s. ContentWith (option_map (λ i. i.now) sent.entry) rest.now
        s.content) }
{
    let section = read_section(reading.alloc, sent, rest)?;
    warn_of_section(reading, at, &section)?;
    let after = section_then(at, &section, Next::Section);
    Ok(Step {
        length: rest.len(),
        content: Content::Section(section),
        after,
    })
}

/// Returns the only item of settings.
fn settings_step(reading: &mut Reading, at: usize, rest: &[u8]) -> Result<Step, AllocError>
    ensures length { IfOk result (λ s. s.length ≡ length rest.now) }
    ensures read { IfOk result (λ s. IsNext Next.Settings at rest.now s.length s.content s.after) }
    ensures phase { IfOk result (λ _. reading.new.phase ≡ reading.old.phase) }
    ensures sections { IfOk result (λ s. HasNoSection s.content) }
{
    let settings = read_settings(reading.alloc, rest)?;
    let after = settings_then(at, reading.alloc, rest, Next::Settings)?;
    if after.is_ok() {
        warn_of_settings(reading, at, settings.as_slice())?;
    }
    Ok(Step {
        length: rest.len(),
        content: Content::Settings(settings),
        after,
    })
}
