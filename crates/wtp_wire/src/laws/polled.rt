//! Laws of polled reading.
ghost use Rattle.std.specs.Prelude.{◌≡◌, ◌<◌, ◌++◌, ℕ, List, length};
ghost use Rattle.wtp_core.specs.Source.{Source};
ghost use Rattle.wtp_wire.specs.Front.{IsUnknown, front};
ghost use Rattle.wtp_wire.specs.Held.{Held, front_held, Skips};

/// If no byte is left to skip, the first frame is that of the bytes held followed by the bytes
/// ahead.
pub fn held_is_in_front()
    ensures { (h : Held) (ahead : List ℕ) → h.skip_remaining ≡ 0
        → front_held h ahead ≡ front (h.taken ++ ahead) }
{}

/// The bytes that a poll skipped, followed by any bytes in the number left to skip, are an unknown
/// frame; or, if bytes were left to skip before, exactly that many bytes.
pub fn skipped_is_unknown()
    ensures begun { (old new : Held) (a b : Source) (s : Skips old new a b) (z : List ℕ)
        → length z ≡ new.skip_remaining → old.skip_remaining ≡ 0
        → IsUnknown ((s.head ++ s.payload) ++ z) }
    ensures going { (old new : Held) (a b : Source) (s : Skips old new a b) (z : List ℕ)
        → length z ≡ new.skip_remaining → 0 < old.skip_remaining
        → length ((s.head ++ s.payload) ++ z) ≡ old.skip_remaining }
{}
