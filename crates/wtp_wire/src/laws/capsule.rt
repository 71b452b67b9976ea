//! Laws of capsules.
ghost use Rattle.std.specs.Prelude.{◌≡◌, ◌≢◌, ◌++◌, ◌⊎◌, ℕ, List, [], Option, Some, Result, Err};
ghost use Rattle.wtp_wire.specs.Capsule.{BeginsWithCapsule, capsule_in, capsule_kind_of, capsule_number_of};
ghost use Rattle.wtp_wire.specs.CapsuleCursor.{CursorEvent, LeadsTo, StepIs, capsules_from, data_in, found_in};
ghost use Rattle.wtp_wire.specs.CapsuleFront.{CapsuleFront, Found, Unknown, TooLong, Cut, End, StartsWith, capsule_front};
ghost use Rattle.wtp_wire.specs.CapsuleStream.{CapsuleEnding, Between, Within, AtTooLong, Step, Leads, data_of, returned, next_capsule, next_held, ends, follows, by_front, capsules, capsules_held, NextGiven, with_result};
ghost use Rattle.wtp_wire.specs.CloseSession.{IsClose, IsWritableClose, close_in, close_value, close_wire};
ghost use Rattle.wtp_wire.specs.Held.{Held, new_held};
ghost use Rattle.wtp_wire.specs.declared.capsule.CapsuleError.{CapsuleError};
ghost use Rattle.wtp_wire.specs.declared.capsule.CapsuleKind.{CapsuleKind};
ghost use Rattle.wtp_wire.specs.declared.capsule.cursor.CapsuleCursor.{CapsuleCursor};
ghost use Rattle.wtp_wire.specs.declared.capsule.cursor.CapsuleStep.{CapsuleStep};

/// Computing the kind of a capsule type gives exactly the kind that has this type.
pub fn capsule_kind_is_computed()
    ensures computed { (kind : CapsuleKind) (id : ℕ) → id ≡ capsule_number_of kind
        → capsule_kind_of id ≡ Some kind }
    ensures defined { (kind : CapsuleKind) (id : ℕ) → capsule_kind_of id ≡ Some kind
        → id ≡ capsule_number_of kind }
{}

/// Computing the capsule at the start of the input agrees with its definition. So the input starts
/// with at most one capsule.
pub fn capsule_is_computed()
    ensures computed { (bytes : List ℕ) (kind : CapsuleKind) (payload : List ℕ)
        → BeginsWithCapsule bytes kind payload → capsule_in bytes ≡ Some (kind, payload) }
    ensures defined { (bytes : List ℕ) (kind : CapsuleKind) (payload : List ℕ)
        → capsule_in bytes ≡ Some (kind, payload) → BeginsWithCapsule bytes kind payload }
{}

/// Computing the code and the reason of a close payload agrees with their definition.
pub fn close_is_computed()
    ensures computed { (code : ℕ) (reason payload : List ℕ) → IsClose code reason payload
        → close_in payload ≡ Some (code, reason) }
    ensures defined { (code : ℕ) (reason payload : List ℕ) → close_in payload ≡ Some (code, reason)
        → IsClose code reason payload }
{}

/// Whatever case of `CapsuleFront` the data starts with, `capsule_front` computes it. So at most
/// one case holds, with one remainder.
pub fn capsule_front_is_computed()
    ensures { (bytes : List ℕ) (c : CapsuleFront) → StartsWith bytes c → capsule_front bytes ≡ c }
{}

/// The data starts with the case that `capsule_front` computes. If that is `Cut`, no other case
/// holds.
pub fn one_capsule_front()
    ensures { (bytes : List ℕ)
        → StartsWith bytes (capsule_front bytes)
        ⊎ ((capsule_front bytes ≡ Cut) × ((c : CapsuleFront) → StartsWith bytes c → ⊥)) }
{}

/// To find the next capsule of a known kind, unknown capsules before it are skipped.
pub fn next_capsule_by_front()
    ensures unknown { (bytes rest : List ℕ) → capsule_front bytes ≡ Unknown rest
        → next_capsule bytes ≡ next_capsule rest }
    ensures other { (bytes : List ℕ) → ((rest : List ℕ) → capsule_front bytes ≢ Unknown rest)
        → next_capsule bytes ≡ capsule_front bytes }
{}

/// The capsules of data, given by the first one and the capsules of the remainder.
pub fn capsules_by_first()
    ensures found { (bytes value rest : List ℕ) (kind : CapsuleKind)
        → capsule_front bytes ≡ Found kind value rest
        → capsules bytes ≡ follows (kind, value) (capsules rest) }
    ensures unknown { (bytes rest : List ℕ) → capsule_front bytes ≡ Unknown rest
        → capsules bytes ≡ capsules rest }
    ensures too_long { (bytes rest : List ℕ) → capsule_front bytes ≡ TooLong rest
        → capsules bytes ≡ ends AtTooLong }
    ensures cut { (bytes : List ℕ) → capsule_front bytes ≡ Cut → capsules bytes ≡ ends Within }
    ensures end { (bytes : List ℕ) → capsule_front bytes ≡ End → capsules bytes ≡ ends Between }
{}

/// It makes no difference where data is split. For all bytes that follow: the capsules and the
/// ending of the state and the bytes before a call are the result of the call, followed by the
/// capsules and the ending of the state and the bytes after it.
pub fn cuts_make_no_difference()
    ensures { (result : Result (Option (CapsuleKind × List ℕ)) CapsuleError) (old new : Held)
        (a b more : List ℕ) → NextGiven result old a new b
        → capsules_held old (a ++ more) ≡ with_result result (capsules_held new (b ++ more)) }
{}

/// A new reading returns the capsules of the data and its ending, in whatever pieces the data
/// arrives and however often a call fails and is repeated. The steps are the pieces that arrived
/// and the calls that returned; `held` and the bytes left are the state after them. If no byte is
/// left, the data ends between two capsules exactly if `finish` returns no error.
pub fn pieces_make_no_difference()
    ensures between { (steps : List Step) (held : Held) → Leads steps new_held [] held []
        → next_held held [] ≡ End
        → capsules (data_of steps) ≡ record { found = returned steps; ending = Between } }
    ensures within { (steps : List Step) (held : Held) → Leads steps new_held [] held []
        → next_held held [] ≡ Cut
        → capsules (data_of steps) ≡ record { found = returned steps; ending = Within } }
    ensures too_long { (steps : List Step) (held new : Held) (left b more : List ℕ)
        → Leads steps new_held [] held left → NextGiven (Err CapsuleError.TooLong) held left new b
        → capsules (data_of steps ++ more)
        ≡ record { found = returned steps; ending = AtTooLong } }
{}

/// A new cursor finds the capsules of the data and its ending, in whatever pieces the data arrives
/// and however often it is called. The events are what happened at the cursor; `cursor` and `rest`
/// are the state after them, for which `finish` returns the ending.
pub fn held_pieces_make_no_difference()
    ensures end { (events : List CursorEvent) (cursor : CapsuleCursor) (rest : List ℕ)
        (ending : CapsuleEnding) → LeadsTo events (record { skip_remaining = 0 }) [] cursor rest
        → capsules_from cursor rest ≡ ends ending
        → capsules (data_in events) ≡ record { found = found_in events []; ending = ending } }
    ensures too_long { (events : List CursorEvent) (old new : CapsuleCursor) (rest more : List ℕ)
        → LeadsTo events (record { skip_remaining = 0 }) [] old rest
        → StepIs CapsuleStep.TooLong old rest new
        → capsules (data_in events ++ more)
        ≡ record { found = found_in events []; ending = AtTooLong } }
{}

/// A written close capsule is read back, with its code and reason, whatever bytes follow it.
pub fn written_close_is_read()
    ensures next { (close : ℕ × List ℕ) (rest : List ℕ) → IsWritableClose close
        → next_capsule (close_wire close ++ rest)
        ≡ Found CapsuleKind.CloseWebTransportSession (close_value close) rest }
    ensures first { (close : ℕ × List ℕ) (rest : List ℕ) → IsWritableClose close
        → capsule_in (close_wire close ++ rest)
        ≡ Some (CapsuleKind.CloseWebTransportSession, close_value close) }
    ensures value { (close : ℕ × List ℕ) → IsWritableClose close
        → close_in (close_value close) ≡ Some close }
{}
