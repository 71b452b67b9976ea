//! What this endpoint sends on its control stream after SETTINGS: GOAWAY (RFC 9114, sections 5.2 and
//! 7.2.6).
ghost use Rattle.std.specs.Prelude.{◌≡◌, ◌⊎◌, ◌≤◌, ◌<◌, ◌^◌, Ok};
ghost use Rattle.wtp_sending.specs.Control.{goaway_bytes, after_goaway, is_named as is_named_is};
ghost use Rattle.wt_c.specs.Output.{WritesPrefix, TooShort};
ghost use Rattle.wt_c.specs.ControlSending.{control_after, peer_of as peer_of_is, IsRefused};

use crate::status::{BUFFER_TOO_SMALL, INVALID, OK};
use wtp_core::bytes::{BufferWriter, BytesWriter};
use wtp_core::varint::VarInt;
use wtp_frames::endpoint::Side;

/// The type of a GOAWAY frame.
const GOAWAY: u32 = 0x07;

// Returns the side of the peer.
fn peer_of(side: u8) -> Side
    ensures { result ≡ peer_of_is side }
{
    if side == 0 {
        Side::Server
    } else {
        Side::Client
    }
}

// Returns whether the ID of a GOAWAY to this side may name a request, or any push.
fn is_named(to: Side, id: VarInt) -> bool
    ensures { result ≡ is_named_is to id }
{
    match to {
        Side::Client => id.into_inner() % 4 == 0,
        Side::Server => true,
    }
}

// Writes the frame. The results are those of `write_bytes`.
fn write_goaway(id: VarInt, out: &mut [u8], used: &mut usize) -> i32
    ensures answers { (result ≡ OK) ⊎ (result ≡ BUFFER_TOO_SMALL) }
    ensures bytes { result ≡ OK → WritesPrefix (goaway_bytes id) out.old out.new used.new }
    ensures room { result ≡ BUFFER_TOO_SMALL
        → TooShort (goaway_bytes id) out.old out.new used.new }
{
    let kind = VarInt::from_u32(GOAWAY);
    let size = VarInt::from_u32(id.size() as u32);
    *used = kind.size() + (size.size() + id.size());
    if out.len() < *used {
        return BUFFER_TOO_SMALL;
    }
    let mut writer = BufferWriter::new(out);
    let front = writer.put_varint(kind);
    prove!(front.is_ok());
    let middle = writer.put_varint(size);
    prove!(middle.is_ok());
    let back = writer.put_varint(id);
    prove!(back.is_ok());
    OK
}

/// Writes a GOAWAY frame to the start of `out`, for the own control stream after SETTINGS. `side` is
/// this endpoint: 0 for a client and 1 for a server. At a server requests from the stream ID `id` on
/// are not processed, and at a client pushes from the push ID `id` on. `last` is the ID of the last
/// GOAWAY, or `u64::MAX` before the first: an ID may be sent again, and a lower one.
///
/// Returns `OK` with the size of the frame in `used`, and `id` in `last`. Returns `BUFFER_TOO_SMALL`
/// if `out` is too short; `used` is then the size of the frame, and the rest is unchanged. Returns
/// `INVALID` if `side` is above 1, if `id` is 2^62 or more or above `last`, or if at a server it is
/// not that of a bidirectional stream of a client; nothing changes then.
#[unsafe(no_mangle)]
pub extern "C" fn wt_goaway_write(
    side: u8,
    id: u64,
    last: &mut u64,
    out: &mut [u8],
    used: &mut usize,
) -> i32
    ensures answers { (result ≡ OK) ⊎ ((result ≡ BUFFER_TOO_SMALL) ⊎ (result ≡ INVALID)) }
    ensures bytes { result ≡ OK → WritesPrefix (goaway_bytes id) out.old out.new used.new }
    ensures sent { result ≡ OK → (side ≤ 1) × (id < 2 ^ 62)
        × (after_goaway (control_after side last.old) id ≡ Ok (control_after side last.new))
        × (last.new ≡ id) }
    ensures room { result ≡ BUFFER_TOO_SMALL → (side ≤ 1) × (id < 2 ^ 62)
        × (after_goaway (control_after side last.old) id ≡ Ok (control_after side id))
        × TooShort (goaway_bytes id) out.old out.new used.new × (last.new ≡ last.old) }
    ensures invalid { result ≡ INVALID → IsRefused side id last.old
        × (out.new ≡ out.old) × (used.new ≡ used.old) × (last.new ≡ last.old) }
{
    if side > 1 {
        return INVALID;
    }
    let Ok(number) = VarInt::try_from_u64(id) else {
        return INVALID;
    };
    if !is_named(peer_of(side), number) || id > *last {
        return INVALID;
    }
    let answer = write_goaway(number, out, used);
    if answer == OK {
        *last = id;
    }
    answer
}
