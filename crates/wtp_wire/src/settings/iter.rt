//! Iteration over settings.

ghost use Rattle.std.specs.Prelude.{◌≡◌, length, ⊤, IfSome};
ghost use Rattle.std.specs.Iterator.{UpTo, YieldsFirst, at_most};
ghost use Rattle.std.specs.Iterator.SizeHint.{IsWithinCount};
ghost use Rattle.wtp_wire.specs.SettingsList.{settings_list};

use crate::settings::{SettingId, Settings};
use std::alloc::AllocError;
use std::collections::btree_map::Iter;
use std::fmt;
use std::iter::FusedIterator;
use std::marker::Model;
use wtp_core::varint::VarInt;

/// An iterator over settings in ascending order of identifiers. See [`Settings::iter`].
#[derive(Drop)]
pub struct SettingsIter<'a> {
    entries: Iter<'a, VarInt, VarInt>,
}

impl<'a> Model for SettingsIter<'a> {
    ghost use Rattle.std.specs.Prelude.{ℕ, List, IsTrue, All};
    ghost use Rattle.std.specs.Map.{keys_of};
    ghost use Rattle.wtp_wire.specs.declared.settings.SettingId.{SettingId};
    ghost use Rattle.wtp_wire.specs.SettingId.{is_setting};
    ghost use Rattle.wtp_wire.specs.SettingsList.{settings_list};

    ghost Value = { List (SettingId × ℕ) };

    ghost view = { λ s. settings_list s.entries };

    ghost invariant = { λ s. All (λ id. IsTrue (is_setting id)) (keys_of s.entries) };
}

impl Settings {
    ghost use Rattle.wtp_wire.specs.Settings.{IsSettings};

    /// Returns an iterator over the settings that are set and their values, in ascending order of
    /// identifiers.
    pub fn iter(&self) -> SettingsIter<'_>
        ensures listed { result ≡ settings_list self.now }
        ensures settings { IsSettings self.now }
    {
        SettingsIter {
            entries: self.values.iter(),
        }
    }
}

impl<'a> IntoIterator for &'a Settings {
    type Item = (SettingId, VarInt);

    type IntoIter = SettingsIter<'a>;

    ghost into_iter_gives = { λ settings iter. iter ≡ settings_list settings.now };

    fn into_iter(self) -> SettingsIter<'a> {
        self.iter()
    }
}

impl Clone for SettingsIter<'_> {
    ghost is_clone = { λ s r. r ≡ s };

    ghost is_infallible = { λ _. ⊤ };

    fn clone(&self) -> Result<Self, AllocError> {
        Ok(SettingsIter {
            entries: self.entries.clone()?,
        })
    }
}

impl Iterator for SettingsIter<'_> {
    type Item = (SettingId, VarInt);

    ghost next_gives = { YieldsFirst (λ s. s) };

    ghost remaining = { λ s. at_most (length s) };

    fn next(&mut self) -> Option<(SettingId, VarInt)> {
        let (number, value) = self.entries.next()?;
        Some((SettingId::parse(*number).unwrap(), *value))
    }

    fn size_hint(&self) -> (usize, Option<usize>)
        ensures lower { IsWithinCount result.0 (at_most (length self.now)) }
        ensures upper { IfSome result.1 (UpTo (at_most (length self.now))) }

        // The bounds are exact: the number of settings left.
        ensures exact { result ≡ (length self.now, Some (length self.now)) }
    {
        let len = self.entries.len();
        (len, Some(len))
    }
}

impl ExactSizeIterator for SettingsIter<'_> {
    fn len(&self) -> usize {
        self.entries.len()
    }
}

impl FusedIterator for SettingsIter<'_> {}

// Prints the settings left, as a map.
impl fmt::Debug for SettingsIter<'_> {
    fn fmt<W: fmt::Write>(&self, f: &mut fmt::Formatter<W>) -> fmt::Result {
        f.debug_map().entries(self.clone().unwrap()).finish()
    }
}
