//! Words of which no character needs an escape.
ghost use Rattle.std.specs.Prelude.{◌≡◌, [], IfOk, string_bytes};
ghost use Rattle.std.specs.Str.{NoCharPasses};
ghost use Rattle.wt_inspection_views.specs.Characters.{needs_escape};
ghost use Rattle.wt_inspection_views.specs.Escaped.{IsPlain};

use crate::escaped::{add_escaped, needs_no_escape};
use std::alloc::{AllocError, Global};
use std::marker::Model;

/// Words of a line of which no character needs an escape, so that they are checked once for many
/// lines.
#[derive(Drop)]
pub(crate) struct CleanWords {
    words: String,
}

// The bytes of the words.
impl Model for CleanWords {
    ghost use Rattle.std.specs.Prelude.{List, ℕ, string_bytes};
    ghost use Rattle.std.specs.Str.{NoCharPasses};
    ghost use Rattle.wt_inspection_views.specs.Characters.{needs_escape};

    ghost Value = { List ℕ };

    ghost view = { λ clean. string_bytes clean.words };

    ghost invariant = { λ clean. NoCharPasses needs_escape (string_bytes clean.words) };
}

impl CleanWords {
    /// Creates empty words.
    pub(crate) fn new(alloc: Global) -> Self
        ensures { result ≡ [] }
    {
        CleanWords {
            words: String::new(alloc),
        }
    }

    /// Returns these words, or their displayed form if a character of them needs an escape.
    ///
    /// Returns [`AllocError`] if allocation fails.
    pub(crate) fn of(alloc: Global, words: &str) -> Result<Self, AllocError>
        ensures { IfOk result (λ clean. IsPlain words.now clean) }
    {
        let mut clean = String::with_capacity(alloc, words.len())?;
        add_clean(&mut clean, words)?;
        Ok(CleanWords { words: clean })
    }

    /// Returns the words as text.
    pub(crate) fn as_str(&self) -> &str
        ensures words { result.now ≡ self.now }
        ensures clean { NoCharPasses needs_escape result.now }
    {
        self.words.as_str()
    }
}

/// Appends words, or their displayed form if a character of them needs an escape.
fn add_clean(clean: &mut String, words: &str) -> Result<(), AllocError>
    requires { string_bytes clean.old ≡ [] }
    ensures { IfOk result (λ _. IsPlain words.now (string_bytes clean.new)) }
{
    if needs_no_escape(words) {
        clean.push_str(words)
    } else {
        add_escaped(clean, words.as_bytes())
    }
}
