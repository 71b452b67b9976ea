//! The texts of a field list: its names and values, one after the other, in one block of memory.
ghost use Rattle.std.specs.Prelude.{◌≡◌, ◌+◌, ◌++◌, [], ◌∷◌, length, take, drop, OnOk, OnErr, IfOk};
ghost use Rattle.wtp_qpack.specs.FieldLines.{seen_line};
ghost use Rattle.wtp_fields.specs.FieldList.{stored, all_stored, place_after, IsWithin, AreWithin};

use super::FieldLine;
use std::alloc::{AllocError, Global};

/// Where the texts of a field are: its name from `start` to `middle`, its value from there to `end`.
#[derive(Clone, Copy, Debug)]
pub(super) struct Place {
    start: usize,
    middle: usize,
    end: usize,
}

/// Returns the name and the value of the field at a place.
#[tactic(auto, using(std::proofs::lemmas::Slice::between_is))]
pub(super) fn line_at(texts: &[u8], place: Place) -> FieldLine<'_>
    requires { IsWithin (length texts.now) place }
    ensures { seen_line result ≡ stored texts.now place }
{
    FieldLine {
        name: &texts[place.start..place.middle],
        value: &texts[place.middle..place.end],
    }
}

/// Appends the texts of a field, and returns where they are. If allocation fails, the texts are
/// unchanged.
fn append_texts(texts: &mut Vec<u8>, name: &[u8], value: &[u8]) -> Result<Place, AllocError>
    ensures ok { OnOk result (texts.new.items ≡ texts.old.items ++ (name.now ++ value.now)) }
    ensures place { IfOk result (λ place. place ≡ place_after texts.old.items name.now value.now) }
    ensures err { OnErr result (texts.new.items ≡ texts.old.items) }
{
    texts.reserve(name.len() + value.len())?;
    let start = texts.len();
    texts.extend_from_slice(name)?;
    let middle = texts.len();
    texts.extend_from_slice(value)?;
    let end = texts.len();
    Ok(Place { start, middle, end })
}

/// Appends a field. If allocation fails, the fields are unchanged.
pub(super) fn append_field(
    texts: &mut Vec<u8>,
    places: &mut Vec<Place>,
    name: &[u8],
    value: &[u8],
) -> Result<(), AllocError>
    requires { AreWithin (length texts.old.items) places.old.items }
    ensures ok { OnOk result (all_stored texts.new.items places.new.items
        ≡ all_stored texts.old.items places.old.items ++ (name.now, value.now) ∷ []) }
    ensures err { OnErr result (all_stored texts.new.items places.new.items
        ≡ all_stored texts.old.items places.old.items) }
    ensures within { AreWithin (length texts.new.items) places.new.items }
{
    places.reserve(1)?;
    let place = append_texts(texts, name, value)?;
    places.push_reserved(place);
    Ok(())
}

/// Returns an empty vector, with memory for so many elements if there is any.
pub(super) fn with_room<T: Drop>(alloc: Global, room: usize) -> Vec<T>
    ensures { result.items ≡ [] }
{
    match Vec::with_capacity(alloc, room) {
        Ok(room) => room,
        Err(_) => Vec::new(alloc),
    }
}
