//! What reading remembers from item to item.
ghost use Rattle.std.specs.Prelude.{◌≡◌, ◌++◌, None, Ok, Err, IfOk};
ghost use Rattle.wt_inspection.specs.DataCapsules.{Stage};
ghost use Rattle.wt_inspection.specs.Walks.{IsStage};
ghost use Rattle.wt_inspection.specs.Warnings.{warning_of};
ghost use Rattle.wt_inspection.specs.Recording.{EndsEmpty, EndsStage, EndsStopped, IsCutAt};
ghost use Rattle.wt_inspection.specs.Recording.{IsFaultAt, IsFaultBy, is_cut_frame};
ghost use Rattle.wt_inspection.specs.Recording.{code_of_nothing, may_not_be_cut, start_of};

use crate::capsules::CapsuleWalk;
use crate::past::Past;
use std::alloc::{AllocError, Global};
use wt_inspection_model::item::{Content, Cut, End, Fault, FaultCode, Rule, Warning};
use wtp_core::error::ErrorCode;
use wtp_wire::rules::StreamRole;
use wtp_wire::stream_header::StreamKind;

/// What was recorded, from its first byte.
#[derive(Clone, Copy, Debug, PartialEq, Eq)]
pub enum Recorded {
    /// One direction of a bidirectional stream, of the end that opened it: a request, or a
    /// WebTransport stream.
    Bi,
    /// The other direction of a request: a response.
    Response,
    /// The response to a request for a session. Once it accepts, its DATA frames contain capsules.
    SessionResponse,
    /// A unidirectional stream.
    Uni,
    /// The payload of a QUIC datagram.
    Datagram,
    /// Capsules, as the DATA frames of a session contain them.
    Capsules,
    /// An encoded field section.
    Section,
    /// The payload of a SETTINGS frame.
    Settings,
}

/// What the next bytes are.
#[derive(Clone, Copy)]
pub enum Next {
    /// The type of a unidirectional stream.
    Head,
    /// Frames on a stream of this role. The flag says whether the next one would be the first,
    /// other than unknown ones.
    Frames(StreamRole, bool),
    /// Bytes that are not read.
    Payload,
    /// Instructions of an encoder stream.
    Encoder,
    /// Instructions of a decoder stream.
    Decoder,
    /// Capsules.
    Capsules,
    /// A datagram.
    Datagram,
    /// A field section.
    Section,
    /// Settings.
    Settings,
}

/// Returns what a recording begins with.
pub(crate) fn start_of(kind: Recorded) -> Next
    ensures { result ≡ start_of kind }
{
    match kind {
        Recorded::Bi => Next::Frames(StreamRole::BiRemote, true),
        Recorded::Response => Next::Frames(StreamRole::BiLocal, true),
        Recorded::SessionResponse => Next::Frames(StreamRole::Session, true),
        Recorded::Uni => Next::Head,
        Recorded::Datagram => Next::Datagram,
        Recorded::Capsules => Next::Capsules,
        Recorded::Section => Next::Section,
        Recorded::Settings => Next::Settings,
    }
}

/// How far the message of a stream went (RFC 9114, section 4.1).
#[derive(Drop)]
pub(crate) enum Phase {
    /// The header section was not read.
    Opening,
    /// It was read. DATA frames have bytes of an application.
    Plain,
    /// It was read, and is that of a session. DATA frames have capsules.
    Session(CapsuleWalk),
}

/// What reading remembers from item to item, besides what is next.
#[derive(Drop)]
pub(crate) struct Reading {
    pub(crate) alloc: Global,
    pub(crate) past: Past,
    pub(crate) phase: Phase,
    pub(crate) warnings: Vec<Warning>,
}

/// Adds a warning of an item and of this line of it, if there is one.
#[inline(always)]
pub(crate) fn add_warning(
    warnings: &mut Vec<Warning>,
    at: usize,
    line: Option<usize>,
    rule: Option<Rule>,
) -> Result<(), AllocError>
    ensures { IfOk result (λ _. warnings.new.items ≡ warnings.old.items
        ++ warning_of at line rule) }
{
    if let Some(rule) = rule {
        warnings.push(Warning { at, line, rule })?;
    }
    Ok(())
}

/// What follows an item: the next bytes, or the end of the reading.
pub(crate) type Then = Result<Next, End>;

/// An item, and what follows it.
#[derive(Drop)]
pub(crate) struct Step {
    pub(crate) length: usize,
    pub(crate) content: Content,
    pub(crate) after: Then,
}

impl Reading {
    /// Creates a reading of the first byte.
    pub(crate) fn new(alloc: Global) -> Self
        ensures { result.phase ≡ Phase.Opening }
    {
        Reading {
            alloc,
            past: Past::new(),
            phase: Phase::Opening,
            warnings: Vec::new(alloc),
        }
    }

    /// Adds a warning, if there is one.
    pub(crate) fn warn(&mut self, at: usize, rule: Option<Rule>) -> Result<(), AllocError>
        ensures phase { IfOk result (λ _. self.new.phase ≡ self.old.phase) }
        ensures warnings { IfOk result (λ _. self.new.warnings.items
            ≡ self.old.warnings.items ++ warning_of at None rule) }
    {
        add_warning(&mut self.warnings, at, None, rule)
    }

    /// Warns of what is wrong with the end of a stream at this place, after which no more bytes
    /// follow.
    pub(crate) fn warn_at_end(&mut self, at: usize) -> Result<(), AllocError>
        ensures { IfOk result (λ _. self.new.phase ≡ self.old.phase) }
    {
        let closed = match self.past.stream {
            Some(StreamKind::Control) => Some(Rule::ClosedControlStream),
            Some(StreamKind::QPackEncoder) | Some(StreamKind::QPackDecoder) => {
                Some(Rule::ClosedQpackStream)
            }
            _ => None,
        };
        self.warn(at, closed)?;
        let unfinished = match self.past.judge {
            Some(judge) => judge.finish(),
            None => None,
        };
        self.warn(at, unfinished)
    }

    /// Returns how the reading ends after the last byte of the last item.
    #[tactic(auto, using(crate::proofs::WalkLemmas::ends_whole, crate::proofs::WalkLemmas::ends_cut))]
    pub(crate) fn finish(&self) -> End
        ensures { (stage : Stage) → IsStage self.now.phase stage → EndsStage stage result }
    {
        match &self.phase {
            Phase::Session(walk) => match walk.pending() {
                Some(cut) => End::Cut(cut),
                None => End::Complete,
            },
            Phase::Opening | Phase::Plain => End::Complete,
        }
    }
}

/// Returns how a recording without bytes ends.
pub(crate) fn end_of_nothing(kind: Recorded) -> End
    ensures { EndsEmpty (code_of_nothing kind) result }
{
    match kind {
        Recorded::Datagram => fault(
            0,
            ErrorCode::Datagram,
            "a datagram begins with a quarter stream ID (RFC 9297, section 2.1)",
        ),
        Recorded::Section => fault(
            0,
            ErrorCode::Decompression,
            "a field section begins with its prefix (RFC 9204, section 4.5.1)",
        ),
        Recorded::Bi
        | Recorded::Response
        | Recorded::SessionResponse
        | Recorded::Uni
        | Recorded::Capsules
        | Recorded::Settings => End::Complete,
    }
}

impl Step {
    /// Returns the item of these bytes, after which the reading goes on.
    pub(crate) fn go_on(length: usize, content: Content, next: Next) -> Self
        ensures length { result.length ≡ length }
        ensures content { result.content ≡ content }
        ensures after { result.after ≡ Ok next }
    {
        Step {
            length,
            content,
            after: Ok(next),
        }
    }

    /// Returns the item of these bytes, with which the reading ends.
    pub(crate) fn last(length: usize, content: Content, end: End) -> Self
        ensures length { result.length ≡ length }
        ensures content { result.content ≡ content }
        ensures after { result.after ≡ Err end }
    {
        Step {
            length,
            content,
            after: Err(end),
        }
    }
}

/// Returns the end within an item.
pub(crate) fn cut(at: usize, item: &'static str, missing: u64) -> End
    ensures { IsCutAt at item.now missing result }
{
    End::Cut(Cut { at, item, missing })
}

/// Returns how bytes end whose reading stops at this end. If they are cut though the stream ends
/// after them, that is a fault of the frame.
pub(crate) fn end_at(kind: Recorded, open: bool, stop: End) -> End
    ensures { EndsStopped ErrorCode.Frame (may_not_be_cut kind «open» stop) stop result }
{
    let why = "the stream ends within a frame (RFC 9114, section 7.1)";
    closed(
        may_not_be_cut(kind, open, stop),
        stop,
        ErrorCode::Frame,
        why,
    )
}

/// Returns how bytes end that are read to the last. If they end within a capsule though the stream
/// ends after them, the message is malformed.
pub(crate) fn end_after(kind: Recorded, open: bool, stop: End) -> End
    ensures { EndsStopped ErrorCode.Message (may_not_be_cut kind «open» stop) stop result }
{
    let why = "the stream ends within a capsule (RFC 9297, section 3.3)";
    closed(
        may_not_be_cut(kind, open, stop),
        stop,
        ErrorCode::Message,
        why,
    )
}

/// Returns how bytes end whose reading stops at this end. If they are cut and may not be, that is a
/// fault of this code.
fn closed(may_not: bool, stop: End, code: ErrorCode, why: &'static str) -> End
    ensures { EndsStopped code «may_not» stop result }
{
    if !may_not {
        return stop;
    }
    match stop {
        End::Cut(Cut { at, missing, .. }) => End::Fault(Fault {
            at,
            code: FaultCode::Library(code),
            why,
            missing,
        }),
        End::Fault(_) | End::Complete => stop,
    }
}

/// Returns whether bytes may not end so, if no more follow them unless `open`.
fn may_not_be_cut(kind: Recorded, open: bool, stop: End) -> bool
    ensures { result ≡ may_not_be_cut kind «open» stop }
{
    match kind {
        Recorded::Bi | Recorded::Response | Recorded::SessionResponse => !open,
        Recorded::Uni => !open && is_cut_frame(stop),
        Recorded::Datagram | Recorded::Capsules | Recorded::Section | Recorded::Settings => false,
    }
}

/// Returns whether bytes are cut within a frame.
fn is_cut_frame(stop: End) -> bool
    ensures { result ≡ is_cut_frame stop }
{
    match stop {
        End::Cut(cut) => cut.item == "frame",
        End::Fault(_) | End::Complete => false,
    }
}

/// Returns the end at a fault.
pub(crate) fn fault(at: usize, code: ErrorCode, why: &'static str) -> End
    ensures { IsFaultAt at code result }
{
    End::Fault(fault_at(at, code, why))
}

/// Returns the end at a fault of any code.
pub(crate) fn fault_by(at: usize, code: FaultCode, why: &'static str) -> End
    ensures { IsFaultBy at code result }
{
    End::Fault(Fault {
        at,
        code,
        why,
        missing: 0,
    })
}

/// Returns a fault of an item that is complete.
pub(crate) fn fault_at(at: usize, code: ErrorCode, why: &'static str) -> Fault
    ensures code { result.code ≡ FaultCode.Library code }
    ensures at { result.at ≡ at }
    ensures missing { result.missing ≡ 0 }
{
    Fault {
        at,
        code: FaultCode::Library(code),
        why,
        missing: 0,
    }
}
