//! Laws of a cursor over bytes.
ghost use Rattle.std.specs.Prelude.{◌≡◌, ◌<◌, ℕ, List, []};
ghost use Rattle.wtransport_proto.specs.CutFrame.{due_in};
ghost use Rattle.wtransport_proto.specs.Place.{BeginsUnknown};

/// If the bytes are the type, the length and the first payload bytes of an unknown frame, the
/// computed number is that of the missing payload bytes. It is 0 if the bytes are not a truncated
/// unknown frame.
pub fn cut_frames()
    ensures computed { (bytes : List ℕ) → 0 < due_in bytes → BeginsUnknown bytes (due_in bytes) [] }
    ensures alone { (bytes : List ℕ) (n : ℕ) → BeginsUnknown bytes n [] → due_in bytes ≡ n }
{}
