//! Capsules (RFC 9297, section 3.2).
ghost use Rattle.std.specs.Prelude.{◌≡◌, ◌≢◌, ◌+◌, ◌%◌, ◌==◌, ◌≤◌, ◌<◌, ◌^◌, ◌++◌, ℕ, List, []};
ghost use Rattle.std.specs.Prelude.{IsSome, Some, None, true, IfOk, IfSome, codes, length, string_bytes};
ghost use Rattle.wtp_wire.specs.AnyCapsule.{missing_from};
ghost use Rattle.wtp_wire.specs.Capsule.{capsule_in, capsule_kind_of};
ghost use Rattle.wtp_wire.specs.CapsuleCursor.{capsule_value};
ghost use Rattle.wtp_wire.specs.CapsuleFront.{IsCapsule};
ghost use Rattle.wtp_wire.specs.CloseSession.{close_in};
ghost use Rattle.wt_inspection.specs.Recording.{Closes, EndsWithin, IsNext, is_overlong};
ghost use Rattle.wt_inspection.specs.CapsuleNames.{capsule_name};
ghost use Rattle.wt_inspection.specs.DataCapsules.{place_of};
ghost use Rattle.wt_inspection.specs.Walks.{Fits, Holds, HoldsAt, IsFaultOf, JudgesBy, JudgesClose};
ghost use Rattle.wt_inspection.specs.Walks.{Judges, LacksOf, TakesPiece, Stepped, begins_at};
ghost use Rattle.wt_inspection.specs.FlowLimits.{has_limit};
ghost use Rattle.wt_inspection.specs.Resolved.{HasNoSection};

use crate::limits::{breach_of, has_limit, limit_of};
use crate::reading::{Next, Reading, Step, Then, cut, fault, fault_at};
use std::alloc::{AllocError, Global};
use std::borrow::CowSlice;
use vesgrauf_registry::capsules::find_capsule;
use wt_inspection_model::item::{
    CapsuleItem, CloseReason, Content, Cut, End, Fault, FaultCode, FlowLimit,
};
use wtp_core::error::{ErrorCode, Refused};
use wtp_core::varint::VarInt;
use wtp_wire::capsule::capsules::CloseWebTransportSession;
use wtp_wire::capsule::{
    AnyCapsule, Capsule, CapsuleCursor, CapsuleKind, CapsuleSpan, UnknownCapsule,
};
use wtp_wire::frame::Frame;
use wtp_wire::head::{first_pair, missing_bytes};

/// Reads the capsules of pieces of data, cut anywhere.
#[derive(Drop)]
pub(crate) struct CapsuleWalk {
    alloc: Global,
    cursor: CapsuleCursor,
    /// The bytes that the cursor left over: the start of a capsule, at most 1043 of them.
    held: Vec<u8>,
    /// The capsule of an unknown type whose value the cursor skips.
    unknown: Option<UnknownCapsule>,
    /// The bytes of that value so far, if its type has a limit.
    value: Vec<u8>,
    /// The place of the first byte of the capsule that has begun.
    at: usize,
}

/// The capsules that end in a piece of data, and the first fault.
#[derive(Drop)]
pub(crate) struct CapsuleBatch {
    pub(crate) items: Vec<CapsuleItem>,
    pub(crate) fault: Option<Fault>,
}

/// What some bytes of a capsule lead to.
#[derive(Drop)]
enum WalkStep {
    /// Nothing yet.
    More,
    /// The capsule is complete.
    Done(CapsuleItem),
    /// The reading ends at a fault.
    Fault(Fault),
}

/// What a complete capsule says of its session.
#[derive(Drop)]
enum CloseOutcome {
    /// Nothing: it is of another type.
    Other,
    /// The session is closed.
    Close(CloseReason),
    /// Its value has a fault of this code.
    Bad(ErrorCode),
}

impl CapsuleWalk {
    /// Creates a walk of data from its first byte.
    pub(crate) fn new(alloc: Global) -> Self
        ensures { Holds result [] }
    {
        CapsuleWalk {
            alloc,
            cursor: CapsuleCursor::new(),
            held: Vec::new(alloc),
            unknown: None,
            value: Vec::new(alloc),
            at: 0,
        }
    }

    /// Takes a piece, which begins at this place. Returns the capsules that end in it, up to the
    /// first fault.
    pub(crate) fn add(&mut self, at: usize, piece: &[u8]) -> Result<CapsuleBatch, AllocError>
        requires { at + length piece.now < 2 ^ 64 }
        ensures { IfOk result (λ taken. (came : List ℕ) (start : ℕ) → HoldsAt self.old came start
            → TakesPiece (place_of start at (length piece.now)) self.new (came ++ piece.now)
            taken) }
    {
        let mut items = Vec::new(self.alloc);
        let mut rest = piece;
        'steps: loop {
            if rest.is_empty() {
                return Ok(CapsuleBatch { items, fault: None });
            }
            let place = at + (piece.len() - rest.len());
            let (front, behind) = rest.split_at(self.next_len(rest.len()));
            match self.step(place, front)? {
                WalkStep::More => {}
                WalkStep::Done(item) => items.push(item)?,
                WalkStep::Fault(fault) => {
                    return Ok(CapsuleBatch {
                        items,
                        fault: Some(fault),
                    });
                }
            }
            rest = behind;
        }
    }

    /// Returns how many of the next bytes are taken at once: as many as are missing.
    fn next_len(&self, left: usize) -> usize
        requires { 1 ≤ left }
        ensures some { 0 < result }
        ensures within { result ≤ left }
        ensures fits { Fits self.now result }
    {
        let missing = self.cursor.missing(self.held.as_slice());
        missing.min(left as u64).max(1) as usize
    }

    /// Takes these bytes, which are no more than are missing. The first is at this place.
    fn step(&mut self, place: usize, front: &[u8]) -> Result<WalkStep, AllocError>
        requires { Fits self.old (length front.now) }
        ensures { IfOk result (λ step. (came : List ℕ) → Holds self.old came
            → Stepped (begins_at came self.old.at place) step self.new (came ++ front.now)) }
    {
        match self.unknown {
            Some(unknown) => self.skip(unknown, front),
            None => self.hold(place, front),
        }
    }

    /// Takes bytes of an unknown capsule's value, which the cursor skips.
    fn skip(&mut self, unknown: UnknownCapsule, front: &[u8]) -> Result<WalkStep, AllocError>
        requires unknown { self.old.unknown ≡ Some unknown }
        requires fits { Fits self.old (length front.now) }
        ensures { IfOk result (λ step. (place : ℕ) (came : List ℕ) → Holds self.old came
            → Stepped (begins_at came self.old.at place) step self.new (came ++ front.now)) }
    {
        self.keep(unknown.number, front)?;
        self.cursor.next_any(front);
        Ok(self.go_on(unknown))
    }

    /// Keeps bytes of the value of a capsule of this type, if it has a limit.
    fn keep(&mut self, number: VarInt, front: &[u8]) -> Result<(), AllocError>
        ensures value { IfOk result (λ _. has_limit number ≡ true
            → self.new.value.items ≡ self.old.value.items ++ front.now) }
        ensures held { IfOk result (λ _. self.new.held.items ≡ self.old.held.items) }
        ensures unknown { IfOk result (λ _. self.new.unknown ≡ self.old.unknown) }
        ensures cursor { IfOk result (λ _. self.new.cursor ≡ self.old.cursor) }
        ensures at { IfOk result (λ _. self.new.at ≡ self.old.at) }
    {
        if has_limit(number) {
            self.value.extend_from_slice(front)?;
        }
        Ok(())
    }

    /// Takes bytes of a capsule that are held until it is complete.
    fn hold(&mut self, place: usize, front: &[u8]) -> Result<WalkStep, AllocError>
        requires none { self.old.unknown ≡ None }
        requires fits { Fits self.old (length front.now) }
        ensures { IfOk result (λ step. (came : List ℕ) → Holds self.old came
            → Stepped (begins_at came self.old.at place) step self.new (came ++ front.now)) }
    {
        self.at = self.start_at(place);
        self.held.extend_from_slice(front)?;
        match self.cursor.next_any(self.held.as_slice()) {
            AnyCapsule::More(_) => Ok(WalkStep::More),
            AnyCapsule::TooLong => Ok(WalkStep::Fault(too_long(self.at))),
            AnyCapsule::Unknown(unknown) => {
                self.held.clear();
                self.value.clear();
                Ok(self.go_on(unknown))
            }
            AnyCapsule::Known(found) => self.complete(found),
        }
    }

    /// Returns the place of the first byte of a capsule whose next byte is at this place.
    fn start_at(&self, place: usize) -> usize
        ensures { result ≡ begins_at self.now.held.items self.now.at place }
    {
        if self.held.is_empty() { place } else { self.at }
    }

    /// Returns the unknown capsule, if none of its value is missing.
    fn go_on(&mut self, unknown: UnknownCapsule) -> WalkStep
        ensures { (came : List ℕ) → self.old.held.items ≡ []
            → LacksOf unknown self.old.value.items self.old.cursor.skip_remaining came
            → Stepped self.old.at result self.new came }
    {
        if self.cursor.skip_remaining > 0 {
            self.unknown = Some(unknown);
            return WalkStep::More;
        }
        self.unknown = None;
        let limit = limit_of(unknown.number, self.value.as_slice());
        WalkStep::Done(capsule_of(
            self.at,
            unknown.number,
            unknown.announced.into_inner(),
            None,
            limit,
        ))
    }

    /// Returns the capsule of a known kind that is held.
    fn complete(&mut self, found: CapsuleSpan) -> Result<WalkStep, AllocError>
        requires { found.end ≤ length self.old.held.items }
        ensures { IfOk result (λ step. self.old.unknown ≡ None → self.old.cursor.skip_remaining ≡ 0
            → IsCapsule found.kind (capsule_value found self.old.held.items) self.old.held.items
            → Stepped self.old.at step self.new self.old.held.items) }
    {
        let closing = closing_of(self.alloc, self.held.as_slice())?;
        self.held.clear();
        let number = found.kind.id();
        let announced = (found.end - found.start) as u64;
        match closing {
            CloseOutcome::Other => {
                let item = capsule_of(self.at, number, announced, None, None);
                Ok(WalkStep::Done(item))
            }
            CloseOutcome::Close(close) => {
                let item = capsule_of(self.at, number, announced, Some(close), None);
                Ok(WalkStep::Done(item))
            }
            CloseOutcome::Bad(code) => Ok(WalkStep::Fault(fault_at(self.at, code, BAD_CLOSE))),
        }
    }

    /// Returns the capsule that the data cuts, if it ends within one.
    #[tactic(auto, using(crate::proofs::WalkLemmas::pending_held, crate::proofs::WalkLemmas::pending_unknown))]
    pub(crate) fn pending(&self) -> Option<Cut>
        ensures none { (came : List ℕ) → Holds self.now came → result ≡ None → came ≡ [] }
        ensures some { (came : List ℕ) → Holds self.now came → IsSome result → came ≢ [] }
        ensures cut { IfSome result (λ cut. (cut.at ≡ self.now.at)
            × (cut.item.now ≡ codes "capsule")
            × (cut.missing ≡ missing_from self.now.cursor self.now.held.items)) }
    {
        if self.held.is_empty() && self.unknown.is_none() {
            return None;
        }
        Some(Cut {
            at: self.at,
            item: "capsule",
            missing: self.cursor.missing(self.held.as_slice()),
        })
    }
}

const BAD_CLOSE: &str = "a close capsule is a code and a text of at most 1024 bytes \
                         (draft-ietf-webtrans-http3-02, section 5)";

/// Returns the fault of a capsule at this place that is too long.
fn too_long(at: usize) -> Fault
    ensures code { result.code ≡ FaultCode.Library ErrorCode.Datagram }
    ensures at { IsFaultOf at result }
{
    let why = "a reason has more than 1024 bytes (draft-ietf-webtrans-http3-02, section 5)";
    fault_at(at, ErrorCode::Datagram, why)
}

/// Returns a capsule.
fn capsule_of(
    at: usize,
    id: VarInt,
    announced: u64,
    close: Option<CloseReason>,
    limit: Option<FlowLimit>,
) -> CapsuleItem
    ensures at { result.at ≡ at }
    ensures number { result.number ≡ id }
    ensures name { result.name.now ≡ capsule_name id }
    ensures announced { result.announced ≡ announced }
    ensures close { result.close ≡ close }
    ensures limit { result.limit ≡ limit }
{
    CapsuleItem {
        at,
        number: id.into_inner(),
        name: name_of(id),
        announced,
        close,
        limit,
    }
}

/// Returns a copy of the code and the reason.
fn reason_of(alloc: Global, close: &CloseWebTransportSession) -> Result<CloseReason, AllocError>
    ensures code { IfOk result (λ found. found.code ≡ close.now.0) }
    ensures reason { IfOk result (λ found. string_bytes found.reason ≡ close.now.1) }
{
    Ok(CloseReason {
        code: close.error_code().into_inner(),
        reason: String::from_str(alloc, close.reason())?,
    })
}

/// Returns the name of a capsule's type.
#[tactic(auto, unfolding(crate::specs::CapsuleNames::capsule_name))]
fn name_of(number: VarInt) -> &'static str
    ensures { result.now ≡ capsule_name number }
{
    match find_capsule(number.into_inner()) {
        Some(row) => row.name,
        None if is_reserved(number) => "reserved",
        None => "unknown",
    }
}

/// Returns whether these bytes are complete capsules, at least one, the first of which has a type
/// with a name of its own.
pub(crate) fn reads_as_capsules(bytes: &[u8]) -> bool {
    let Some(first) = first_pair(bytes) else {
        return false;
    };
    if matches!(name_of(first.first), "reserved" | "unknown") {
        return false;
    }
    let mut rest = bytes;
    'capsules: while !rest.is_empty() {
        let Some(pair) = first_pair(rest) else {
            return false;
        };
        let (_, value) = rest.split_at(pair.size);
        let announced = pair.second.into_inner();
        if announced > value.len() as u64 {
            return false;
        }
        rest = value.split_at(announced as usize).1;
    }
    true
}

/// Returns whether a capsule's type is `0x29 * n + 0x17` for a number `n`. Those are reserved to
/// exercise the requirement to ignore unknown ones (RFC 9297, section 5.4).
fn is_reserved(number: VarInt) -> bool
    ensures { result ≡ ((number % 0x29) == 0x17) }
{
    number.into_inner() % 0x29 == 0x17
}

/// Returns the next capsule of bytes that are capsules.
pub(crate) fn next_capsule(
    reading: &mut Reading,
    at: usize,
    rest: &[u8],
) -> Result<Step, AllocError>
    requires { 0 < length rest.now }
    ensures within { IfOk result (λ s. s.length ≤ length rest.now) }
    ensures some { IfOk result (λ s. 0 < s.length) }
    ensures read { IfOk result (λ s. IsNext Next.Capsules at rest.now s.length s.content s.after) }
    ensures phase { IfOk result (λ _. reading.new.phase ≡ reading.old.phase) }
    ensures sections { IfOk result (λ s. HasNoSection s.content) }
{
    let Some(pair) = first_pair(rest) else {
        let end = cut(at, "capsule", missing_bytes(rest) as u64);
        return Ok(Step::last(rest.len(), Content::Unread, end));
    };
    let left = rest.len() - pair.size;
    let announced = pair.second.into_inner();
    if announced > left as u64 {
        let end = end_within(at, pair.first, announced, announced - left as u64);
        return Ok(Step::last(
            rest.len(),
            Content::Capsule(capsule_of(at, pair.first, announced, None, None)),
            end,
        ));
    }
    let len = pair.size + announced as usize;
    let (close, after) = read_close(reading.alloc, at, rest.split_at(len).0)?;
    let value = rest.split_at(pair.size).1.split_at(announced as usize).0;
    let limit = limit_of(pair.first, value);
    let item = capsule_of(at, pair.first, announced, close, limit);
    reading.warn(at, breach_of(&item))?;
    Ok(Step {
        length: len,
        content: Content::Capsule(item),
        after,
    })
}

/// Returns the end within a capsule at this place that lacks so many bytes of its value. If the value
/// is too long, that is a fault, whatever the bytes are.
fn end_within(at: usize, number: VarInt, announced: u64, missing: u64) -> End
    ensures { EndsWithin (is_overlong (capsule_kind_of number) announced) at missing result }
{
    if is_overlong(number, announced) {
        End::Fault(too_long(at))
    } else {
        cut(at, "capsule", missing)
    }
}

/// Returns whether a value of this length is too long for a capsule of this type.
fn is_overlong(number: VarInt, length: u64) -> bool
    ensures { result ≡ is_overlong (capsule_kind_of number) length }
{
    match CapsuleKind::parse(number) {
        Some(kind) => length > kind.max_value_len() as u64,
        None => false,
    }
}

/// Returns the code and the reason of the capsule that these bytes are, if it closes its session,
/// and what follows it.
#[tactic(auto, using(crate::proofs::CapsuleLemmas::closes_other, crate::proofs::CapsuleLemmas::closes_close, crate::proofs::CapsuleLemmas::closes_bad))]
fn read_close(
    alloc: Global,
    at: usize,
    bytes: &[u8],
) -> Result<(Option<CloseReason>, Then), AllocError>
    ensures { IfOk result (λ found. length bytes.now < 2 ^ 62
        → Closes at (capsule_in bytes.now) found.0 found.1) }
{
    match closing_of(alloc, bytes)? {
        CloseOutcome::Other => Ok((None, Ok(Next::Capsules))),
        CloseOutcome::Close(found) => Ok((Some(found), Ok(Next::Capsules))),
        CloseOutcome::Bad(code) => Ok((None, Err(fault(at, code, BAD_CLOSE)))),
    }
}

/// Returns what the capsule that these bytes are says of its session.
#[tactic(auto, using(crate::proofs::CapsuleLemmas::judges_none, crate::proofs::CapsuleLemmas::judges_some))]
fn closing_of(alloc: Global, bytes: &[u8]) -> Result<CloseOutcome, AllocError>
    ensures { IfOk result (λ closing. length bytes.now < 2 ^ 62
        → Judges (capsule_in bytes.now) closing) }
{
    if bytes.len() as u64 > VarInt::MAX.into_inner() {
        return Ok(CloseOutcome::Other);
    }
    let frame = Frame::new_data(CowSlice::Borrowed(bytes));
    let Some(capsule) = Capsule::with_frame(&frame) else {
        return Ok(CloseOutcome::Other);
    };
    closing_by(alloc, &capsule)
}

/// Returns what a capsule says of its session, by its kind.
fn closing_by(alloc: Global, capsule: &Capsule<'_>) -> Result<CloseOutcome, AllocError>
    ensures { IfOk result (λ closing. JudgesBy capsule.now.0 capsule.now.1 closing) }
{
    match capsule.kind() {
        CapsuleKind::CloseWebTransportSession => closing_in(alloc, capsule),
    }
}

/// Returns what a close capsule says of its session.
fn closing_in(alloc: Global, capsule: &Capsule<'_>) -> Result<CloseOutcome, AllocError>
    requires { capsule.now.0 ≡ CapsuleKind.CloseWebTransportSession }
    ensures { IfOk result (λ closing. JudgesClose (close_in capsule.now.1) closing) }
{
    match CloseWebTransportSession::with_capsule(alloc, capsule) {
        Ok(close) => Ok(CloseOutcome::Close(reason_of(alloc, &close)?)),
        Err(Refused::Memory) => Err(AllocError),
        Err(Refused::Code(code)) => Ok(CloseOutcome::Bad(code)),
    }
}
