//! Characters that are escaped.
ghost use Rattle.std.specs.Prelude.{◌≡◌};
ghost use Rattle.wt_inspection_views.specs.Characters.{is_high_invisible, is_invisible};
ghost use Rattle.wt_inspection_views.specs.Characters.{is_last_invisible, is_like_mark};
ghost use Rattle.wt_inspection_views.specs.Characters.{is_low_invisible, is_middle_invisible};
ghost use Rattle.wt_inspection_views.specs.Characters.{is_within, needs_escape};

/// Returns whether a character is escaped in a line: a control character, an invisible one, the
/// mark of lines, or one that looks like it.
pub(crate) fn needs_escape(c: char) -> bool
    ensures { result ≡ needs_escape c }
{
    c.is_control() || is_invisible(c) || is_like_mark(c)
}

/// Returns whether a character has no form of its own, or changes the direction of text: one of
/// Unicode's categories Cf, Zl, Zp and Zs other than a blank, or a default-ignorable one.
pub(crate) fn is_invisible(c: char) -> bool
    ensures { result ≡ is_invisible c }
{
    c >= '\u{80}'
        && (is_low_invisible(c)
            || is_middle_invisible(c)
            || is_high_invisible(c)
            || is_last_invisible(c))
}

/// Returns whether a character is the mark of lines, or looks like it.
fn is_like_mark(c: char) -> bool
    ensures { result ≡ is_like_mark c }
{
    c >= '\u{80}'
        && (is_within('\u{2500}', '\u{25ff}', c)
            || is_within('\u{2758}', '\u{275a}', c)
            || is_within('\u{1fb00}', '\u{1fbff}', c))
}

/// Returns whether a character is one of these, from the first to the last.
fn is_within(first: char, last: char, c: char) -> bool
    ensures { result ≡ is_within first last c }
{
    first <= c && c <= last
}

/// Returns whether a character below U+1000 is invisible.
fn is_low_invisible(c: char) -> bool
    ensures { result ≡ is_low_invisible c }
{
    is_within('\u{a0}', '\u{a0}', c)
        || is_within('\u{ad}', '\u{ad}', c)
        || is_within('\u{34f}', '\u{34f}', c)
        || is_within('\u{600}', '\u{605}', c)
        || is_within('\u{61c}', '\u{61c}', c)
        || is_within('\u{6dd}', '\u{6dd}', c)
        || is_within('\u{70f}', '\u{70f}', c)
        || is_within('\u{890}', '\u{891}', c)
        || is_within('\u{8e2}', '\u{8e2}', c)
}

/// Returns whether a character from U+1000 to U+2FFF is invisible.
fn is_middle_invisible(c: char) -> bool
    ensures { result ≡ is_middle_invisible c }
{
    is_within('\u{115f}', '\u{1160}', c)
        || is_within('\u{1680}', '\u{1680}', c)
        || is_within('\u{17b4}', '\u{17b5}', c)
        || is_within('\u{180b}', '\u{180f}', c)
        || is_within('\u{2000}', '\u{200f}', c)
        || is_within('\u{2028}', '\u{202f}', c)
        || is_within('\u{205f}', '\u{206f}', c)
        || is_within('\u{2800}', '\u{2800}', c)
}

/// Returns whether a character from U+3000 to U+FFFF is invisible.
fn is_high_invisible(c: char) -> bool
    ensures { result ≡ is_high_invisible c }
{
    is_within('\u{3000}', '\u{3000}', c)
        || is_within('\u{3164}', '\u{3164}', c)
        || is_within('\u{fe00}', '\u{fe0f}', c)
        || is_within('\u{feff}', '\u{feff}', c)
        || is_within('\u{ffa0}', '\u{ffa0}', c)
        || is_within('\u{fff0}', '\u{fffb}', c)
}

/// Returns whether a character above U+FFFF is invisible.
fn is_last_invisible(c: char) -> bool
    ensures { result ≡ is_last_invisible c }
{
    is_within('\u{110bd}', '\u{110bd}', c)
        || is_within('\u{110cd}', '\u{110cd}', c)
        || is_within('\u{13430}', '\u{1343f}', c)
        || is_within('\u{1bca0}', '\u{1bca3}', c)
        || is_within('\u{1d173}', '\u{1d17a}', c)
        || is_within('\u{e0000}', '\u{e0fff}', c)
}
