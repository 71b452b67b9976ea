//! The head of a frame: its first two numbers, which are the type and the length or session ID.
ghost use Rattle.std.specs.Prelude.{◌≡◌, ◌+◌, ◌<◌, ◌≤◌, length, Some, None, MatchOption, IfSome};
ghost use Rattle.wtp_core.specs.Reader.{IsRest};
ghost use Rattle.wtp_wire.specs.FrameNeed.{frame_need, frame_need_most, frame_need_grows};
ghost use Rattle.wtp_wire.specs.FramePrefix.{head_at, announcement_at, announcement_of, AnnouncesKind};
ghost use Rattle.wtp_wire.specs.Kind.{kind_of};
ghost use Rattle.wtp_wire.specs.PastNumber.{past_two};

use crate::frame::FrameKind;
use crate::head::{first_pair, pair_size};
use wtp_core::bytes::BytesReader;
use wtp_core::ids::SessionId;
use wtp_core::polling::head::Prefix;
use wtp_core::varint::VarInt;

/// The maximum length of a payload that is read, in bytes.
pub(crate) const MAX_PAYLOAD: u64 = 4096;

/// What follows the head of a frame.
#[derive(Clone, Copy)]
pub(crate) enum Announcement {
    /// Not known yet: the two numbers are not both complete.
    Unfinished,
    /// A payload of this many bytes, in a frame of this kind.
    Payload(FrameKind, u64),
    /// Nothing: this is the WebTransport frame of this session.
    Session(SessionId),
    /// A payload of this many bytes in an unknown frame, which must be skipped.
    Skip(u64),
    /// Nothing: the second number is an invalid session ID.
    BadSession,
    /// A payload of more than 4096 bytes in a known frame, which is not read.
    TooLong,
}

/// The head of a frame: its first two numbers. Every frame starts with both.
pub(crate) struct FramePrefix;

impl Prefix for FramePrefix {
    ghost len_needed = { frame_need };

    ghost max_len = { 16 };

    #[inline(always)]
    fn len_needed(held: &[u8]) -> usize {
        pair_size(held)
    }

    ghost need_most = { frame_need_most };

    ghost need_grows = { frame_need_grows };
}

/// A complete head at the start of some bytes.
#[derive(Clone, Copy)]
pub(crate) struct ParsedHead<'a> {
    /// The type.
    pub(crate) id: VarInt,
    /// What follows the head.
    pub(crate) announcement: Announcement,
    /// The bytes after the head.
    pub(crate) after: &'a [u8],
}

/// Returns the head at the start of the bytes, or `None` if its two numbers are not both complete.
#[inline(always)]
#[tactic(auto, using(crate::proofs::HeadPairLemmas::head_steps))]
pub(crate) fn first_head<'a>(bytes: &'a [u8]) -> Option<ParsedHead<'a>>
    ensures head { MatchOption result (head_at bytes.now ≡ None)
        (λ h. head_at bytes.now ≡ Some (h.announcement, h.after.now)) }
    ensures kind { IfSome result (λ h. AnnouncesKind (kind_of h.id) h.announcement) }
    ensures within { IfSome result (λ h. length h.after.now ≤ length bytes.now) }
{
    let pair = first_pair(bytes)?;
    Some(ParsedHead {
        id: pair.first,
        announcement: classify_head(pair.first, pair.second),
        after: &bytes[pair.size..],
    })
}

/// Reads the head at the start of the input. Returns the type and what follows the head, or `None`
/// if the two numbers are not both complete. The reader has then moved past the first number if
/// that is complete.
#[inline(always)]
#[tactic(auto, unfolding(crate::specs::FramePrefix::head_at))]
pub(crate) fn get_head<'a, R: BytesReader<'a>>(reader: &mut R) -> Option<(VarInt, Announcement)>
    ensures head { MatchOption result (head_at (R.left reader.old) ≡ None)
        (λ h. head_at (R.left reader.old) ≡ Some (h.1, R.left reader.new)) }
    ensures kind { IfSome result (λ h. AnnouncesKind (kind_of h.0) h.1) }
    ensures left { R.left reader.new ≡ past_two (R.left reader.old) }
    ensures rest { IsRest (R.left reader.new) (R.left reader.old) }
    ensures kept { R.kept reader.new ≡ R.kept reader.old }
{
    let id = reader.get_varint()?;
    let number = reader.get_varint()?;
    Some((id, classify_head(id, number)))
}

/// Returns what follows the head at the start of the bytes.
#[inline(always)]
#[tactic(auto, unfolding(crate::specs::FramePrefix::announcement_at))]
pub(crate) fn read_head(held: &[u8]) -> Announcement
    ensures { result ≡ announcement_at held.now }
{
    match first_head(held) {
        Some(head) => head.announcement,
        None => Announcement::Unfinished,
    }
}

/// Returns what follows a head with these two numbers.
#[inline(always)]
pub(crate) fn classify_head(id: VarInt, number: VarInt) -> Announcement
    ensures announces { result ≡ announcement_of (kind_of id) number }
    ensures kind { AnnouncesKind (kind_of id) result }
{
    match FrameKind::parse(id) {
        None => Announcement::Skip(number.into_inner()),
        Some(FrameKind::WebTransport) => match SessionId::try_from_varint(number) {
            Ok(id) => Announcement::Session(id),
            Err(_) => Announcement::BadSession,
        },
        Some(kind) => {
            if number.into_inner() > MAX_PAYLOAD {
                Announcement::TooLong
            } else {
                Announcement::Payload(kind, number.into_inner())
            }
        }
    }
}
