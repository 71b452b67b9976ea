//! Iterators over field lists.
ghost use Rattle.std.specs.Prelude.{◌≡◌, length};
ghost use Rattle.std.specs.Iterator.{YieldsFirstBy, YieldsFirstRef, item_count};
ghost use Rattle.wtp_qpack.specs.FieldLines.{seen_line};
ghost use Rattle.wtp_fields.specs.FieldList.{all_stored, values_of, AreWithin};

use super::FieldLine;
use super::texts::{Place, line_at};
use std::marker::Model;

/// An iterator over the fields of a list. See [`FieldList::iter`](super::FieldList::iter).
#[derive(Drop)]
pub struct Fields<'a> {
    texts: &'a [u8],
    rest: &'a [Place],
}

// In contracts, the iterator is the list of fields left.
impl<'a> Model for Fields<'a> {
    ghost use Rattle.std.specs.Prelude.{List, length};
    ghost use Rattle.wtp_qpack.specs.Field.{Field};
    ghost use Rattle.wtp_fields.specs.FieldList.{all_stored, AreWithin};

    ghost Value = { List Field };

    ghost view = { λ fields. all_stored fields.texts.now fields.rest.now };

    ghost invariant = { λ fields. AreWithin (length fields.texts.now) fields.rest.now };
}

impl<'a> Fields<'a> {
    /// Creates an iterator over the fields.
    pub(super) fn new(texts: &'a [u8], places: &'a [Place]) -> Self
        requires { AreWithin (length texts.now) places.now }
        ensures { result ≡ all_stored texts.now places.now }
    {
        Fields {
            texts,
            rest: places,
        }
    }
}

impl<'a> Iterator for Fields<'a> {
    type Item = FieldLine<'a>;

    ghost next_gives = { YieldsFirstBy seen_line (λ fields. fields) };

    ghost remaining = { item_count (λ fields. fields) };

    fn next(&mut self) -> Option<FieldLine<'a>> {
        let (first, others) = self.rest.split_first()?;
        self.rest = others;
        Some(line_at(self.texts, *first))
    }
}

/// An iterator over the values of all fields with a name. See
/// [`FieldList::all`](super::FieldList::all).
#[derive(Drop)]
pub struct Values<'a> {
    fields: Fields<'a>,
    name: &'a [u8],
}

// In contracts, the iterator is the list of values left.
impl<'a> Model for Values<'a> {
    ghost use Rattle.std.specs.Prelude.{List, ℕ};
    ghost use Rattle.wtp_fields.specs.FieldList.{values_of};

    ghost Value = { List (List ℕ) };

    ghost view = { λ values. values_of values.name.now values.fields };
}

impl<'a> Values<'a> {
    /// Creates an iterator over the values of a name in the fields.
    pub(super) fn new(fields: Fields<'a>, name: &'a [u8]) -> Self
        ensures { result ≡ values_of name.now fields.entry }
    {
        Values { fields, name }
    }
}

impl<'a> Iterator for Values<'a> {
    type Item = &'a [u8];

    ghost next_gives = { YieldsFirstRef (λ values. values) };

    ghost remaining = { item_count (λ values. values) };

    fn next(&mut self) -> Option<&'a [u8]> {
        while let Some(field) = self.fields.next() {
            if field.name == self.name {
                return Some(field.value);
            }
        }
        None
    }
}
