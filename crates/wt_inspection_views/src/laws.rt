//! Laws of the definitions that this crate's contracts cite.
ghost use Rattle.std.specs.Prelude.{◌≡◌, ◌<◌, ◌^◌, ℕ, List, All};
ghost use Rattle.wt_inspection_views.specs.Escaped.{AreLines, IsShown};
ghost use Rattle.wt_inspection_views.specs.Html.{HasPolicy, IsPage};
ghost use Rattle.wt_inspection_views.specs.Painting.{IsPainted, without_sequences};

/// If two byte strings have the same displayed form, they are equal.
pub fn shown_bytes_are_told_apart()
    ensures { (x y shown : List ℕ) → All (λ b. b < 2 ^ 8) x → All (λ b. b < 2 ^ 8) y
        → IsShown x shown → IsShown y shown → x ≡ y }
{}

/// A page begins with its content security policy: it loads nothing from elsewhere, and runs no
/// script but the one with the hash in the policy.
pub fn pages_have_a_policy()
    ensures { (page : List ℕ) → IsPage page → HasPolicy page }
{}

/// A text in colours is the text without colours once its escape sequences are left out.
pub fn colors_hide_nothing()
    ensures { (text painted : List ℕ) → AreLines text → IsPainted text painted
        → without_sequences painted ≡ text }
{}
