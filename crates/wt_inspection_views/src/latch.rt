//! Whether an allocation failed.
ghost use Rattle.std.specs.Prelude.{◌≡◌, true, false, is_ok, IsTrue, IfOk, OnOk, OnErr};

use std::alloc::AllocError;
use std::marker::Model;

/// Records that an allocation failed, so that calls which append something return nothing. It is
/// reported at the end.
#[derive(Drop)]
pub(crate) struct Latch {
    is_whole: bool,
}

// Whether no allocation failed.
impl Model for Latch {
    ghost use Rattle.std.specs.Prelude.{Bool};

    ghost Value = { Bool };

    ghost view = { λ latch. latch.is_whole };
}

impl Latch {
    /// No allocation failed yet.
    pub(crate) fn new() -> Self
        ensures { result ≡ true }
    {
        Latch { is_whole: true }
    }

    /// An allocation failed if `added` is an error.
    pub(crate) fn after(added: Result<(), AllocError>) -> Self
        ensures { result ≡ is_ok added }
    {
        Latch {
            is_whole: added.is_ok(),
        }
    }

    /// Records that an allocation failed.
    pub(crate) fn mark_failed(&mut self)
        ensures { self.new ≡ false }
    {
        self.is_whole = false;
    }

    /// Records whether `added` is an error.
    pub(crate) fn note(&mut self, added: Result<(), AllocError>)
        ensures ok { OnOk added (self.new ≡ self.old) }
        ensures err { OnErr added (self.new ≡ false) }
    {
        if added.is_err() {
            self.is_whole = false;
        }
    }

    /// Returns a value, or [`AllocError`] if an allocation failed.
    pub(crate) fn finish<T: Drop>(self, value: T) -> Result<T, AllocError>
        ensures { IfOk result (λ v. (v ≡ value) × IsTrue self) }
    {
        if self.is_whole {
            Ok(value)
        } else {
            Err(AllocError)
        }
    }
}
