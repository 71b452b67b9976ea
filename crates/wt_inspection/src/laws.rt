//! Laws of the definitions that the contract of [`inspect`](crate::inspect) cites. Each function
//! does nothing: its contract is the law.
ghost use Rattle.std.specs.Prelude.{◌≡◌, ◌⊎◌, ◌++◌, ℕ, List, Bool, Option, Some, Ok, false, drop};
ghost use Rattle.wtp_core.specs.declared.error.ErrorCode.{ErrorCode};
ghost use Rattle.wtp_wire.specs.Content.{WebTransportOf};
ghost use Rattle.wtp_wire.specs.Role.{role_of};
ghost use Rattle.wtp_wire.specs.Run.{Tail, H3, run, ends, follows, run_stop};
ghost use Rattle.wtp_wire.specs.declared.rules.StreamRole.{StreamRole};
ghost use Rattle.wtp_wire.specs.declared.rules.StreamRole.TheVariants.{BiRemote};
ghost use Rattle.wt_inspection.specs.DataCapsules.{Stage};
ghost use Rattle.wt_inspection.specs.ItemFrames.{AreReadable, IsLateSession, frames_in};
ghost use Rattle.wt_inspection.specs.Recording.{IsNext, Reads, StopsWith, Then};
ghost use Rattle.wt_inspection_model.specs.declared.item.Content.TheVariants.{Session, Unread};
ghost use Rattle.wt_inspection_model.specs.declared.item.Item.{Item};
ghost use Rattle.wt_inspection.specs.declared.reading.Next.TheVariants.{Frames};

/// As long as the reading goes on, the frames of the items are the frames with which the run of
/// the bytes begins, and the run of the bytes after them follows. The payloads that a stream reads
/// must be within its limit.
pub fn frames_are_those_of_the_run()
    ensures { (items : List Item) (role : StreamRole) (first still : Bool) (stage final : Stage)
        (bytes rest : List ℕ) (tail : Tail)
        → Reads (Ok (Frames role first)) stage bytes items (Ok (Frames role still)) final rest
        → AreReadable items
        → (run (role_of role) first bytes tail).frames
        ≡ frames_in bytes items ++ (run (role_of role) still rest tail).frames }
{}

/// Where bytes are not read as a frame, the run has no frame either: it ends at the same fault, or
/// as too few bytes do. There is one exception, a WebTransport stream after unknown frames: the
/// run, which ignores them, finds it, and the reading stops with the fault
/// [`ErrorCode::Frame`](wtp_core::error::ErrorCode::Frame).
pub fn no_frame_is_none_of_the_run()
    ensures { (role : StreamRole) (first : Bool) (at : ℕ) (bytes : List ℕ) (len : ℕ) (after : Then)
        (tail : Tail) → IsNext (Frames role first) at bytes len Unread after
        → (run (role_of role) first bytes tail ≡ ends (run_stop bytes bytes tail))
        ⊎ ((c : ErrorCode) × (run (role_of role) first bytes tail ≡ ends (H3 c))
        × StopsWith at c after)
        ⊎ IsLateSession role first at bytes tail after }
{}

/// A WebTransport stream is shown only where the first bytes of a bidirectional stream begin it, and
/// the run begins with it there.
pub fn a_session_comes_first()
    ensures { (role : StreamRole) (first : Bool) (at : ℕ) (bytes : List ℕ) (len id : ℕ) (after : Then)
        (tail : Tail) → IsNext (Frames role first) at bytes len (Session id) after
        → (role ≡ BiRemote) × (at ≡ 0) × (run (role_of role) first bytes tail
        ≡ follows (WebTransportOf id) (run (role_of role) false (drop len bytes) tail)) }
{}
