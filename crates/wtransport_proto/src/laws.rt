//! Laws of the definitions that the contracts of this crate cite. The contract of each function
//! states the law; its body is empty. The laws of the crates below are in [`base`], [`wire`] and
//! [`fields`].
ghost use Rattle.std.specs.Prelude.{◌≡◌, ◌≢◌, ◌<◌, ◌≤◌, ◌++◌, ℕ, List, Bool, false, Some, None, Ok, length, drop};
ghost use Rattle.wtp_core.specs.declared.error.ErrorCode.{ErrorCode};
ghost use Rattle.wtp_core.specs.declared.error.ErrorCode.TheVariants.{Id, ExcessiveLoad};
ghost use Rattle.wtp_fields.specs.Field.{Field, IsMap, AreTexts};
ghost use Rattle.wtp_fields.specs.FieldSection.{map_at};
ghost use Rattle.wtp_fields.specs.Headers.{payload};
ghost use Rattle.wtp_wire.specs.Content.{Content, HeadersOf, kind_in};
ghost use Rattle.wtp_wire.specs.Front.{Framed, Unknown, BadId, TooBig, Short, front};
ghost use Rattle.wtp_wire.specs.Held.{Held};
ghost use Rattle.wtp_wire.specs.Wire.{wire};
ghost use Rattle.wtp_wire.specs.declared.frame.kind.FrameKind.{FrameKind};
ghost use Rattle.wtp_wire.specs.Rule.{Role, RemoteBi, RemoteUni, rule};
ghost use Rattle.wtp_wire.specs.Run.{Tail, MayGoOn, H3, skip_unknown, run, ends, follows, run_stop, counted};
ghost use Rattle.wtransport_proto.specs.Agreeing.{Agrees};
ghost use Rattle.wtransport_proto.specs.HeldRun.{run_held, stop_of, count_held};

pub use wtp_core::laws as base;
pub use wtp_fields::laws as fields;
pub use wtp_wire::laws as wire;

pub mod cursor;
pub mod opening;
pub mod place;

/// The run of bytes, given by their first frame if that is not unknown.
pub fn run_goes_by_front()
    ensures allowed { (role : Role) (first : Bool) (bytes rest : List ℕ) (tail : Tail) (f : Content)
        → front bytes ≡ Framed f rest → rule role first (kind_in f) ≡ None
        → run role first bytes tail ≡ follows f (run role false rest tail) }
    ensures refused { (role : Role) (first : Bool) (bytes rest : List ℕ) (tail : Tail) (f : Content)
        (code : ErrorCode) → front bytes ≡ Framed f rest → rule role first (kind_in f) ≡ Some code
        → run role first bytes tail ≡ ends (H3 code) }
    ensures bad_id { (role : Role) (first : Bool) (bytes rest : List ℕ) (tail : Tail)
        → front bytes ≡ BadId rest → run role first bytes tail ≡ ends (H3 Id) }
    ensures too_big { (role : Role) (first : Bool) (bytes rest : List ℕ) (tail : Tail)
        → front bytes ≡ TooBig rest → run role first bytes tail ≡ ends (H3 ExcessiveLoad) }
    ensures short { (role : Role) (first : Bool) (bytes : List ℕ) (tail : Tail)
        → front bytes ≡ Short → run role first bytes tail ≡ ends (run_stop bytes bytes tail) }
{}

/// An unknown frame is skipped: the run is that of the bytes after it. If more bytes may follow and
/// the run has no frame, the bytes of the unknown frame count as left over.
pub fn run_passes_unknown()
    ensures ended { (role : Role) (first : Bool) (bytes rest : List ℕ) (tail : Tail)
        → tail ≢ MayGoOn → front bytes ≡ Unknown rest
        → run role first bytes tail ≡ run role first rest tail }
    ensures going_on { (role : Role) (first : Bool) (bytes rest : List ℕ)
        → front bytes ≡ Unknown rest
        → run role first bytes MayGoOn ≡ counted bytes (run role first rest MayGoOn) }
{}

/// The bytes after the unknown frames at the start, given by the first frame.
pub fn skip_unknown_by_front()
    ensures unknown { (bytes rest : List ℕ) → front bytes ≡ Unknown rest
        → skip_unknown bytes ≡ skip_unknown rest }
    ensures known { (bytes : List ℕ) → ((rest : List ℕ) → front bytes ≢ Unknown rest)
        → skip_unknown bytes ≡ bytes }
{}

/// Only bidirectional streams that the peer opened distinguish the first frame from later ones.
pub fn only_remote_bi_counts()
    ensures rules { (role : Role) (f g : Bool) (kind : FrameKind) → role ≢ RemoteBi
        → rule role f kind ≡ rule role g kind }
    ensures runs { (role : Role) (f g : Bool) (bytes : List ℕ) (tail : Tail) → role ≢ RemoteBi
        → run role f bytes tail ≡ run role g bytes tail }
{}

/// The run of a reading state and the bytes ahead, where no more may follow, is that of the bytes
/// held followed by the bytes ahead. If payload bytes of an unknown frame are left to skip, it is
/// the run of the bytes after those. If there are fewer bytes ahead, it has no frame.
pub fn run_held_by_bytes()
    ensures held { (role : Role) (first : Bool) (h : Held) (ahead : List ℕ) (tail : Tail)
        → tail ≢ MayGoOn → h.skip_remaining ≡ 0
        → run_held role first h ahead tail ≡ run role first (h.taken ++ ahead) tail }
    ensures skip_remaining { (role : Role) (first : Bool) (h : Held) (ahead : List ℕ) (tail : Tail)
        → 0 < h.skip_remaining → h.skip_remaining ≤ length ahead
        → run_held role first h ahead tail ≡ run role first (drop h.skip_remaining ahead) tail }
    ensures lacking { (role : Role) (first : Bool) (h : Held) (ahead : List ℕ) (tail : Tail)
        → length ahead < h.skip_remaining
        → run_held role first h ahead tail ≡ ends (stop_of (count_held h ahead) tail) }
{}

/// Buffered and polled reading agree: the run of bytes after which more may follow has the same
/// frames as the run of the same bytes with an end. Both endings depend on the bytes after these
/// frames: they are the same error code; or, if the bytes are too few for a frame, the first run is
/// open with exactly these bytes left, and the second ends as the stream does.
pub fn buffered_and_polled_agree()
    ensures { (role : Role) (first : Bool) (bytes : List ℕ) (tail : Tail) → tail ≢ MayGoOn
        → Agrees role first tail bytes (run role first bytes MayGoOn) (run role first bytes tail) }
{}

/// A header map that is sent completely, in a frame with a payload of at most 4096 bytes, is read
/// back as the same map. On every bidirectional stream, the run of the bytes of its frame, followed
/// by any bytes, starts with that frame, and decoding the frame's section gives the map.
pub fn header_run()
    ensures sent { (role : Role) (first : Bool) (m : List Field) (rest : List ℕ) (tail : Tail)
        → role ≢ RemoteUni → length (payload m) ≤ 4096
        → run role first (wire (HeadersOf (payload m)) ++ rest) tail
        ≡ follows (HeadersOf (payload m)) (run role false rest tail) }
    ensures again { (m : List Field) → IsMap m → AreTexts m → map_at (payload m) ≡ Ok m }
{}
