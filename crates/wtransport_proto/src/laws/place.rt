//! Laws of the position where a run ends.
ghost use Rattle.std.specs.Prelude.{◌≡◌, ◌≢◌, ℕ, List, Bool, false, Some, None};
ghost use Rattle.wtp_core.specs.declared.error.ErrorCode.{ErrorCode};
ghost use Rattle.wtp_wire.specs.Content.{Content, kind_in};
ghost use Rattle.wtp_wire.specs.Front.{Framed, Unknown, BadId, TooBig, Short, front};
ghost use Rattle.wtp_wire.specs.Held.{Held, new_held, front_held};
ghost use Rattle.wtp_wire.specs.Rule.{Role, rule};
ghost use Rattle.wtp_wire.specs.Run.{Tail, skip_unknown, run};
ghost use Rattle.wtransport_proto.specs.Agreeing.{EndsAfter};
ghost use Rattle.wtransport_proto.specs.Place.{remainder, remainder_here, place_held, place_here, place_after};

/// The bytes left after the frames of a run. If the stream allows the first frame after any unknown
/// frames, they are those left of the bytes after it; otherwise they are all of the bytes.
pub fn remainder_by_front()
    ensures allowed { (role : Role) (first : Bool) (bytes rest : List ℕ) (f : Content)
        → front (skip_unknown bytes) ≡ Framed f rest → rule role first (kind_in f) ≡ None
        → remainder role first bytes ≡ remainder role false rest }
    ensures refused { (role : Role) (first : Bool) (bytes rest : List ℕ) (f : Content)
        (code : ErrorCode)
        → front (skip_unknown bytes) ≡ Framed f rest → rule role first (kind_in f) ≡ Some code
        → remainder role first bytes ≡ remainder_here first bytes }
    ensures no_frame { (role : Role) (first : Bool) (bytes : List ℕ)
        → ((f : Content) (rest : List ℕ) → front (skip_unknown bytes) ≢ Framed f rest)
        → remainder role first bytes ≡ remainder_here first bytes }
{}

/// The ending of a run depends on the bytes left after its frames: it is the error code of a frame
/// that is not allowed, of an invalid session ID or of a payload that is too big; or, if the bytes
/// are too few, the run ends as they end.
pub fn run_ends_by_remainder()
    ensures { (role : Role) (first : Bool) (bytes : List ℕ) (tail : Tail)
        → EndsAfter role tail (remainder role first bytes) (run role first bytes tail).ending }
{}

/// The position where the run of the bytes held and ahead ends, given by the first frame: it is
/// after frames that the stream allows and unknown frames, and before everything else.
pub fn place_by_front()
    ensures allowed { (role : Role) (first : Bool) (h : Held) (ahead rest : List ℕ) (f : Content)
        → front_held h ahead ≡ Framed f rest → rule role first (kind_in f) ≡ None
        → place_held role first h ahead ≡ place_held role false new_held rest }
    ensures refused { (role : Role) (first : Bool) (h : Held) (ahead rest : List ℕ) (f : Content)
        (code : ErrorCode)
        → front_held h ahead ≡ Framed f rest → rule role first (kind_in f) ≡ Some code
        → place_held role first h ahead ≡ place_here first h ahead }
    ensures unknown { (role : Role) (first : Bool) (h : Held) (ahead rest : List ℕ)
        → front_held h ahead ≡ Unknown rest → place_held role first h ahead
        ≡ place_held role first new_held rest }
    ensures bad_id { (role : Role) (first : Bool) (h : Held) (ahead rest : List ℕ)
        → front_held h ahead ≡ BadId rest → place_held role first h ahead
        ≡ place_here first h ahead }
    ensures too_big { (role : Role) (first : Bool) (h : Held) (ahead rest : List ℕ)
        → front_held h ahead ≡ TooBig rest → place_held role first h ahead
        ≡ place_here first h ahead }
    ensures short { (role : Role) (first : Bool) (h : Held) (ahead : List ℕ)
        → front_held h ahead ≡ Short → place_held role first h ahead ≡ place_here first h ahead }
{}

/// If no byte is held, it is the position after the frames of the bytes ahead.
pub fn place_by_remainder()
    ensures { (role : Role) (first : Bool) (bytes : List ℕ)
        → place_held role first new_held bytes ≡ place_after (remainder role first bytes) }
{}
