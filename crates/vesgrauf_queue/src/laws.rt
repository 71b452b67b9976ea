//! Laws of all runs of a queue. Each function does nothing: its contract is the law.
ghost use Rattle.std.specs.Prelude.{◌≡◌, ◌++◌, ◌+◌, ◌≤◌, ℕ, List, [], ◌∷◌, Bool, true, false, length, drop, None};
ghost use Rattle.vesgrauf_queue.specs.declared.config.QueueConfig.{QueueConfig};
ghost use Rattle.vesgrauf_queue.specs.State.{State, waiting, counted, is_full, IsIdle};
ghost use Rattle.vesgrauf_queue.specs.Steps.{Step, Queues, Resets, Puts, PutsReset, Does, Run};
ghost use Rattle.vesgrauf_queue.specs.Runs.{queued, put, acked, finished, was_reset, fin_put, PutsInOrder, ResetsFor, StaysWithin, owed_after};

/// The bytes that were queued are those that QUIC took and then those that wait: none is lost, repeated or in another
/// place. After a reset, what it took and what waits are a start of them.
pub fn no_byte_is_lost()
    ensures whole { (config : QueueConfig) (steps : List Step) (s : State) → Run config steps s
        → was_reset steps ≡ false → queued steps ≡ put steps ++ waiting s }
    ensures start { (config : QueueConfig) (steps : List Step) (s : State) → Run config steps s
        → (rest : List ℕ) × (queued steps ≡ (put steps ++ waiting s) ++ rest) }
{}

/// QUIC takes the end once, and last, with all bytes that were queued, of a stream that was finished. After the end it
/// takes at most a reset, and after a reset nothing.
pub fn the_end_comes_once_and_last()
    ensures order { (config : QueueConfig) (steps : List Step) (s : State) → Run config steps s
        → PutsInOrder false false steps }
    ensures whole { (config : QueueConfig) (steps : List Step) (s : State) → Run config steps s
        → fin_put steps ≡ true → (put steps ≡ queued steps) × (finished steps ≡ true) }
{}

/// QUIC takes a reset only of a stream that was reset with this code, and after all bytes that are reliable. From the
/// reset on it takes no other bytes, and no end.
pub fn a_reset_keeps_to_its_size()
    ensures asked { (config : QueueConfig) (steps : List Step) (s : State) → Run config steps s
        → ResetsFor [] 0 steps }
    ensures within { (config : QueueConfig) (steps : List Step) (s : State) → Run config steps s
        → StaysWithin None 0 steps }
{}

/// With `keep_until_acked` the bytes that QUIC took are kept, whatever is reset or finished, but for those that are
/// acknowledged; without it none are. No more are acknowledged than QUIC took.
pub fn bytes_are_kept_until_acked()
    ensures kept { (config : QueueConfig) (steps : List Step) (s : State) → Run config steps s
        → config.keep_until_acked ≡ true → s.kept ≡ drop (acked steps) (put steps) }
    ensures none { (config : QueueConfig) (steps : List Step) (s : State) → Run config steps s
        → config.keep_until_acked ≡ false → s.kept ≡ [] }
    ensures put { (config : QueueConfig) (steps : List Step) (s : State) → Run config steps s
        → s.put ≡ length (put steps) }
    ensures acked { (config : QueueConfig) (steps : List Step) (s : State) → Run config steps s
        → (s.acked ≡ acked steps) × (acked steps ≤ length (put steps)) }
{}

/// A `Writable` is owed exactly if a call was told that there is no room, and none was told since.
pub fn each_refusal_is_answered_once()
    ensures { (config : QueueConfig) (steps : List Step) (s : State) → Run config steps s
        → s.owed ≡ owed_after false steps }
{}

/// When nothing is to be put of a stream that was not reset, QUIC took all that was queued, and the end if the stream
/// was finished.
pub fn nothing_is_left_behind()
    ensures bytes { (config : QueueConfig) (steps : List Step) (s : State) → Run config steps s
        → IsIdle s → was_reset steps ≡ false → put steps ≡ queued steps }
    ensures end { (config : QueueConfig) (steps : List Step) (s : State) → Run config steps s
        → IsIdle s → was_reset steps ≡ false → finished steps ≡ true → fin_put steps ≡ true }
{}

/// A queue that is not full takes a call of any size, and is then above the mark by that call at most. One that has no
/// bytes that count is not full.
pub fn one_call_passes_the_mark()
    ensures bound { (s t : State) (bytes : List ℕ) (room : Bool) → is_full s ≡ false
        → Does (Queues bytes room) s t → counted t ≤ s.config.mark + length bytes }
    ensures empty { (s : State) → counted s ≡ 0 → is_full s ≡ false }
{}

/// The definitions refuse bytes after the end, two ends, two resets, bytes and an end after a reset, a reset that nobody
/// asked for, and one before its reliable bytes. They allow a reset after the end, and before it its reliable bytes.
pub fn wrong_orders_are_refused()
    ensures bytes_after_the_end { PutsInOrder false false (Puts (1 ∷ []) true ∷ Puts (2 ∷ []) false ∷ []) → ⊥ }
    ensures two_ends { PutsInOrder false false (Puts [] true ∷ Puts [] true ∷ []) → ⊥ }
    ensures two_resets { PutsInOrder false false (PutsReset 1 0 ∷ PutsReset 1 0 ∷ []) → ⊥ }
    ensures bytes_after_a_reset { StaysWithin None 0 (Resets 1 0 ∷ Puts (1 ∷ []) false ∷ []) → ⊥ }
    ensures end_after_a_reset { StaysWithin None 0 (Resets 1 0 ∷ Puts [] true ∷ []) → ⊥ }
    ensures not_asked { ResetsFor [] 0 (PutsReset 1 0 ∷ []) → ⊥ }
    ensures too_early { ResetsFor [] 0 (Resets 1 2 ∷ Puts (1 ∷ []) false ∷ PutsReset 1 2 ∷ []) → ⊥ }
    ensures reset_after_the_end { PutsInOrder false false (Puts (1 ∷ []) true ∷ PutsReset 1 0 ∷ []) }
    ensures reliable { StaysWithin None 0 (Puts (1 ∷ []) false ∷ Resets 1 2 ∷ Puts (2 ∷ []) false ∷ PutsReset 1 2 ∷ []) }
{}
