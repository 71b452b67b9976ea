//! Reading frames from bytes owned by the caller, without a source and without allocation.
ghost use Rattle.std.specs.Prelude.{◌≡◌, ◌≤◌, ◌-◌, ◌↔◌, length, Ok, None, true, IsOk, OnErr, Err};
ghost use Rattle.wtp_core.specs.Reader.{IsRest};
ghost use Rattle.wtp_wire.specs.Front.{front};
ghost use Rattle.wtp_wire.specs.Run.{skip_unknown};
ghost use Rattle.wtransport_proto.specs.CutFrame.{due_in};
ghost use Rattle.wtransport_proto.specs.Reading.{AnswersKnown};

use wtp_core::bytes::BytesReader;
use wtp_core::error::ErrorCode;
use wtp_core::ids::SessionId;
use wtp_wire::frame::{Frame, FrameKind};
use wtp_wire::rules::{StreamRole, fault_of};

/// The state of an incremental frame reader over bytes owned by the caller.
///
/// It stores no bytes. The caller passes the unconsumed bytes again, followed by new ones. Every
/// combination of field values is valid.
#[derive(Clone, Copy, Debug, PartialEq, Eq)]
pub struct FrameCursor {
    /// The role of the stream.
    pub role: StreamRole,
    /// Whether the next frame is the first one of the stream, not counting unknown frames.
    pub first: bool,
    /// The number of payload bytes of an unknown frame left to skip.
    pub skip_remaining: u64,
}

/// A frame, given by its position in the bytes passed to [`FrameCursor::next`].
#[derive(Clone, Copy, Debug, PartialEq, Eq)]
pub struct FrameSpan {
    /// The kind.
    pub kind: FrameKind,
    /// The session ID, if the kind is WebTransport.
    pub session_id: Option<SessionId>,
    /// The offset of the payload.
    pub start: usize,
    /// The offset of the end of the payload, which is the number of bytes consumed.
    pub end: usize,
    ghost ordered: { start ≤ end },
}

/// The result of [`FrameCursor::next`].
#[derive(Clone, Copy, Debug, PartialEq, Eq)]
pub enum CursorStep {
    /// A complete frame. The bytes up to its end are consumed.
    Frame(FrameSpan),
    /// More bytes are needed. This many bytes are consumed.
    More(usize),
    /// An error of the stream, with its code. No byte is consumed.
    Fault(ErrorCode),
}

impl FrameSpan {
    ghost use Rattle.wtp_wire.specs.Content.{payload_in, IsProper};
    ghost use Rattle.wtransport_proto.specs.FrameCursor.{payload_at, IsPlaceOf};

    // Returns the position of a frame that ends at this offset.
    fn of(frame: &Frame<'_>, end: usize) -> Self
        requires { length (payload_in frame.now) ≤ end }
        ensures place { IsPlaceOf result frame.now end }
        ensures proper { IsProper result.kind (payload_in frame.now) result.session_id }
    {
        let len = frame.payload().len();
        FrameSpan {
            kind: frame.kind(),
            session_id: frame.session_id(),
            start: end - len,
            end,
        }
    }

    /// Returns the payload of the frame. Pass the bytes that were passed to [`FrameCursor::next`].
    /// Requires that there are at least `end` bytes.
    pub fn payload<'a>(&self, bytes: &'a [u8]) -> &'a [u8]
        requires { self.now.end ≤ length bytes.now }
        ensures { result.now ≡ payload_at self.now bytes.now }
    {
        &bytes[self.start..self.end]
    }
}

impl FrameCursor {
    ghost use Rattle.wtransport_proto.specs.FrameCursor.{StepIs, RunGoesOn, held_by, run_from, ending_of};
    ghost use Rattle.wtp_wire.specs.Front.{Short};
    ghost use Rattle.wtp_wire.specs.Held.{front_held};
    ghost use Rattle.wtp_wire.specs.Run.{Ended, ends};

    /// Creates a cursor at the start of a stream with this role.
    pub fn new(role: StreamRole) -> Self
        ensures { result ≡ record { role = role; first = true; skip_remaining = 0 } }
    {
        FrameCursor {
            role,
            first: true,
            skip_remaining: 0,
        }
    }

    /// Finds the next frame in the bytes after those consumed before. Does not allocate.
    ///
    /// Unknown frames are skipped, even if they arrive in parts (RFC 9114, section 9).
    ///
    /// - `Frame(place)`: the next frame, which the stream allows. The bytes up to `place.end` are
    ///   consumed.
    /// - `More(n)`: there is no complete frame. The first `n` bytes are consumed. At most 4111
    ///   bytes are left, which must be passed again with more bytes after them.
    /// - `Fault(code)`: `FrameUnexpected` or `Frame` if the frame is not permitted here, `Id` if
    ///   its session ID is invalid, `ExcessiveLoad` if its length is above 4096. The cursor is
    ///   unchanged.
    ///
    /// The frames and the first error are the same however the bytes of a stream are split.
    pub fn next(&mut self, bytes: &[u8]) -> CursorStep
        ensures step { StepIs result self.old bytes.now self.new }
        ensures run { RunGoesOn result self.old bytes.now self.new }
    {
        let len = bytes.len();
        if self.skip_remaining > len as u64 {
            self.skip_remaining -= len as u64;
            return CursorStep::More(len);
        }
        let (_, mut rest) = bytes.split_at(self.skip_remaining as usize);
        match take_known(&mut rest) {
            Ok(Some(frame)) => match fault_of(self.role, self.first, frame.kind()) {
                None => {
                    self.first = false;
                    self.skip_remaining = 0;
                    CursorStep::Frame(FrameSpan::of(&frame, len - rest.len()))
                }
                Some(code) => CursorStep::Fault(code),
            },
            Ok(None) => {
                self.skip_remaining = payload_due(rest);
                if self.skip_remaining > 0 {
                    return CursorStep::More(len);
                }
                CursorStep::More(len - rest.len())
            }
            Err(code) => CursorStep::Fault(code),
        }
    }

    /// Checks that the stream may end here. `rest` is the unconsumed remainder: after `More(n)`,
    /// the bytes after the first `n`.
    ///
    /// Returns `Frame` if the stream ends inside a frame (RFC 9114, section 7.1): if `rest` is not
    /// empty, or if bytes of an unknown frame are left to skip.
    #[tactic(auto, using(crate::proofs::CursorStepLemmas::endings))]
    pub fn finish(&self, rest: &[u8]) -> Result<(), ErrorCode>
        ensures clean { IsOk result ↔ ((self.now.skip_remaining ≡ 0) × (length rest.now ≡ 0)) }
        ensures code { OnErr result (result ≡ Err ErrorCode.Frame) }
        ensures run { front_held (held_by self.now) rest.now ≡ Short
            → run_from self.now rest.now Ended ≡ ends (ending_of result) }
    {
        if self.skip_remaining > 0 {
            return Err(ErrorCode::Frame);
        }
        if !rest.is_empty() {
            return Err(ErrorCode::Frame);
        }
        Ok(())
    }
}

/// Reads the first frame of a known or reserved type, and skips unknown frames before it. Returns
/// `None` if the bytes after the unknown frames are too few for a frame; `rest` then contains these
/// bytes.
fn take_known<'a>(rest: &mut &'a [u8]) -> Result<Option<Frame<'a>>, ErrorCode>
    ensures answer { AnswersKnown (front (skip_unknown rest.old.now)) result rest.new.now }
    ensures short { result ≡ Ok None → rest.new.now ≡ skip_unknown rest.old.now }
    ensures rest { IsRest rest.new.now rest.old.now }
{
    'frames: loop {
        let before = *rest;
        match Frame::read(rest) {
            Ok(Some(frame)) => return Ok(Some(frame)),
            Ok(None) => {
                *rest = before;
                return Ok(None);
            }
            Err(fault) => match fault.code() {
                None => {}
                Some(code) => return Err(code),
            },
        }
    }
}

/// Returns how many payload bytes are missing if the bytes are a truncated unknown frame, and 0
/// otherwise.
#[cold]
#[inline(never)]
#[tactic(auto, unfolding(crate::specs::CutFrame::due_in))]
fn payload_due(bytes: &[u8]) -> u64
    ensures { result ≡ due_in bytes.now }
{
    let mut rest = bytes;
    let Some(id) = rest.get_varint() else {
        return 0;
    };
    let Some(size) = rest.get_varint() else {
        return 0;
    };
    match FrameKind::parse(id) {
        None => size.into_inner().saturating_sub(rest.len() as u64),
        Some(_) => 0,
    }
}
