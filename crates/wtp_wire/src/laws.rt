//! Laws of the definitions that the contracts of this crate cite. The contract of each function
//! states the law; its body is empty.
ghost use Rattle.std.specs.Prelude.{◌≡◌, ◌≢◌, ◌++◌, ◌⊎◌, ℕ, List, Some};
ghost use Rattle.wtp_wire.specs.Kind.{IsKind, kind_of};
ghost use Rattle.wtp_wire.specs.Front.{Front, Framed, Short, Begins, extended, front};
ghost use Rattle.wtp_wire.specs.Content.{Content};
ghost use Rattle.wtp_wire.specs.Wire.{wire, IsReadable};
ghost use Rattle.wtp_wire.specs.declared.frame.kind.FrameKind.{FrameKind};

pub mod capsule;
pub mod datagram;
pub mod polled;
pub mod settings;
pub mod stream_header;

/// Computing the kind of a type agrees with its definition.
pub fn kind_is_computed()
    ensures computed { (kind : FrameKind) (id : ℕ) → IsKind kind id → kind_of id ≡ Some kind }
    ensures defined { (kind : FrameKind) (id : ℕ) → kind_of id ≡ Some kind → IsKind kind id }
{}

/// Whatever case of `Front` the input starts with, `front` computes it. So at most one case holds,
/// with one frame and one remainder.
pub fn front_is_computed()
    ensures { (bytes : List ℕ) (c : Front) → Begins bytes c → front bytes ≡ c }
{}

/// The input starts with the case that `front` computes. If that is `Short`, no other case holds.
pub fn front_is_unique()
    ensures { (bytes : List ℕ)
        → Begins bytes (front bytes)
        ⊎ ((front bytes ≡ Short) × ((c : Front) → Begins bytes c → ⊥)) }
{}

/// Appending bytes does not change a case other than `Short`, except for its remainder.
pub fn front_is_stable()
    ensures { (bytes more : List ℕ) → front bytes ≢ Short
        → front (bytes ++ more) ≡ extended (front bytes) more }
{}

/// A written frame is read back, whatever bytes follow it.
pub fn written_is_read()
    ensures { (f : Content) (rest : List ℕ) → IsReadable f
        → front (wire f ++ rest) ≡ Framed f rest }
{}
