//! Laws of the map. Each function does nothing: its contract is the law.
ghost use Rattle.std.specs.Prelude.{◌≡◌, ◌≢◌, ℕ, List, Option, Some, None};
ghost use Rattle.vesgrauf_streams.specs.Streams.{Streams, get, with_value, Updates};
ghost use Rattle.vesgrauf_streams.specs.Runs.{Step, Run, put_last};

/// A look-up finds what was last put under its ID, and nothing if that was removed, or if nothing was put there.
pub fn a_look_up_finds_what_was_put_last<V>()
    ensures { (steps : List (Step V)) (m : Streams V) → Run steps m → (id : ℕ) → get m id ≡ put_last steps id }
{}

/// What is put under one ID, or removed there, is nothing to another.
pub fn others_stay<V>()
    ensures { (m n : Streams V) (id other : ℕ) (w : Option V) → Updates m n id w → id ≢ other
        → get n other ≡ get m other }
{}

/// What is written through a value that is lent is put under its ID.
pub fn a_write_is_put<V>()
    ensures { (m : Streams V) (id : ℕ) (v w : V) → get m id ≡ Some v → Updates m (with_value m id w) id (Some w) }
{}
