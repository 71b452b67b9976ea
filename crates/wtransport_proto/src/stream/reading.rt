//! Reading frames from a stream: one implementation for all kinds, which differ in their rule.
ghost use Rattle.std.specs.Prelude.{◌≡◌, true, false, not};
ghost use Rattle.wtp_core.specs.Cursor.{left_of, whole_of};
ghost use Rattle.wtp_core.specs.Reader.{IsRest};
ghost use Rattle.wtp_wire.specs.Content.{kind_in};
ghost use Rattle.wtp_wire.specs.Front.{front};
ghost use Rattle.wtp_wire.specs.Rule.{Role, rule};
ghost use Rattle.wtp_wire.specs.PastNumber.{past_two};
ghost use Rattle.wtp_wire.specs.Run.{skip_unknown};
ghost use Rattle.wtransport_proto.specs.Reading.{AnswersFrame, AnswersKnown, AnswersRun, MovesPast, ReaderIsAfter, permitted};

use std::mem;
use wtp_core::bytes::{BufferReader, BytesReader};
use wtp_core::error::ErrorCode;
use wtp_wire::frame::{Frame, FrameKind};

/// A stream in a reading state.
pub(crate) trait Rule {
    // The reading state.
    ghost role: { Role };

    /// Returns the fault of a frame of this kind, which may be the first of the stream.
    fn fault(first: bool, kind: FrameKind) -> Option<ErrorCode>
        ensures { result ≡ rule role first kind };
}

/// Reads the first frame of a known or exercise kind; unknown frames before it are skipped.
#[inline(always)]
fn read_known<'a, R: BytesReader<'a>>(reader: &mut R) -> Result<Option<Frame<'a>>, ErrorCode>
    ensures answer { AnswersKnown (front (skip_unknown (R.left reader.old))) result
        (R.left reader.new) }
    ensures none { result ≡ Ok None
        → R.left reader.new ≡ past_two (skip_unknown (R.left reader.old)) }
    ensures rest { IsRest (R.left reader.new) (R.left reader.old) }
    ensures kept { R.kept reader.new ≡ R.kept reader.old }
{
    'frames: loop {
        match Frame::read(reader) {
            Ok(found) => return Ok(found),
            Err(fault) => match fault.code() {
                None => {}
                Some(code) => return Err(code),
            },
        }
    }
}

/// Returns a frame that the rule of `K` permits, or the code of the fault that refuses it.
#[inline(always)]
pub(crate) fn permit<'a, K: Rule>(first: bool, frame: Frame<'a>) -> Result<Frame<'a>, ErrorCode>
    ensures { result ≡ permitted (rule K.role first (kind_in frame.entry)) frame.entry }
{
    match K::fault(first, frame.kind()) {
        None => Ok(frame),
        Some(code) => Err(code),
    }
}

/// Reads the next frame by the rule of `K`, and records that a complete frame was read.
#[inline(always)]
pub(crate) fn read_frame<'a, K: Rule, R: BytesReader<'a>>(
    first_frame_done: &mut bool,
    reader: &mut R,
) -> Result<Option<Frame<'a>>, ErrorCode>
    ensures answer { AnswersFrame K.role (not first_frame_done.old)
        (front (skip_unknown (R.left reader.old))) result (not first_frame_done.new)
        (R.left reader.new) }
    ensures none { result ≡ Ok None
        → R.left reader.new ≡ past_two (skip_unknown (R.left reader.old)) }
    ensures stays { first_frame_done.old ≡ true → first_frame_done.new ≡ true }
    ensures rest { IsRest (R.left reader.new) (R.left reader.old) }
    ensures kept { R.kept reader.new ≡ R.kept reader.old }
{
    let Some(frame) = read_known(reader)? else {
        return Ok(None);
    };
    let first = !mem::replace(first_frame_done, true);
    Ok(Some(permit::<K>(first, frame)?))
}

/// Reads the next frame by the rule of `K`, as one that is not the first of its stream.
#[inline(always)]
pub(crate) fn read_later_frame<'a, K: Rule, R: BytesReader<'a>>(
    reader: &mut R,
) -> Result<Option<Frame<'a>>, ErrorCode>
    ensures answer { AnswersFrame K.role false (front (skip_unknown (R.left reader.old))) result
        false (R.left reader.new) }
    ensures none { result ≡ Ok None
        → R.left reader.new ≡ past_two (skip_unknown (R.left reader.old)) }
    ensures rest { IsRest (R.left reader.new) (R.left reader.old) }
    ensures kept { R.kept reader.new ≡ R.kept reader.old }
{
    let Some(frame) = read_known(reader)? else {
        return Ok(None);
    };
    Ok(Some(permit::<K>(false, frame)?))
}

/// Reads the next frame as `read_frame` does, and moves past it only.
#[inline(always)]
pub(crate) fn read_frame_from_buffer<'a, K: Rule>(
    first_frame_done: &mut bool,
    reader: &mut BufferReader<'a>,
) -> Result<Option<Frame<'a>>, ErrorCode>
    ensures run { AnswersRun K.role (not first_frame_done.old) (left_of reader.old) result
        (not first_frame_done.new) (left_of reader.new) }
    ensures place { ReaderIsAfter K.role (not first_frame_done.old) (left_of reader.old) result
        (not first_frame_done.new) (left_of reader.new) }
    ensures stays { first_frame_done.old ≡ true → first_frame_done.new ≡ true }
    ensures whole { whole_of reader.new ≡ whole_of reader.old }
{
    let mut ahead = BufferReader::new(reader.buffer_remaining());
    let found = read_frame::<K, BufferReader<'a>>(first_frame_done, &mut ahead);
    move_past(reader, &ahead, &found);
    found
}

/// Reads the next frame as `read_later_frame` does, and moves past it only.
#[inline(always)]
pub(crate) fn read_later_frame_from_buffer<'a, K: Rule>(
    reader: &mut BufferReader<'a>,
) -> Result<Option<Frame<'a>>, ErrorCode>
    ensures run { AnswersRun K.role false (left_of reader.old) result false (left_of reader.new) }
    ensures place { ReaderIsAfter K.role false (left_of reader.old) result false
        (left_of reader.new) }
    ensures whole { whole_of reader.new ≡ whole_of reader.old }
{
    let mut ahead = BufferReader::new(reader.buffer_remaining());
    let found = read_later_frame::<K, BufferReader<'a>>(&mut ahead);
    move_past(reader, &ahead, &found);
    found
}

/// Moves to the position of `ahead` if a frame was read there, and stays where it is otherwise.
#[inline(always)]
fn move_past<'a>(
    reader: &mut BufferReader<'a>,
    ahead: &BufferReader<'a>,
    found: &Result<Option<Frame<'a>>, ErrorCode>,
)
    requires { whole_of ahead.now ≡ left_of reader.old }
    ensures place { MovesPast found.now (left_of reader.old) (left_of ahead.now)
        (left_of reader.new) }
    ensures whole { whole_of reader.new ≡ whole_of reader.old }
{
    if let Ok(Some(_)) = found {
        reader.move_to(ahead);
    }
}
