//! The line of the last item without contents.
ghost use Rattle.std.specs.Prelude.{◌≡◌, ◌++◌, ◌==◌, ℕ, List, IfOk, IsTrue, OnErr, OnOk, codes, get_or};
ghost use Rattle.wt_inspection_views.specs.Sources.{IsLikeSource};
ghost use Rattle.wt_inspection_views.specs.JsonLines.{CompletesLine, IsJsonLine, with_comma};

use super::add_shape;
use super::object::Object;
use crate::shape::{CapsuleShape, FrameShape, Shape};
use itoa::Buffer;
use std::alloc::{AllocError, Global};
use std::marker::Model;
use wt_inspection_model::item::{Content, FrameItem, Item, Parts};

/// How the line of an item begins that is not of a connection.
const FIRST: &[u8] = b"{\"at\":";

/// What the line of an item without contents is made from, besides its offset.
#[derive(Drop)]
pub(super) struct Source {
    /// The number of bytes of the item.
    pub(super) length: usize,
    /// The item.
    pub(super) shape: Shape,
    /// Whether it has capsules, of which there are none.
    pub(super) has_capsules: bool,
}

impl Source {
    /// Returns what the line of an item is made from, or `None` if it has contents.
    pub(super) fn of(item: &Item) -> Option<Self> {
        match &item.content {
            Content::Frame(frame) => Source::of_frame(item.length, frame),
            Content::Capsule(capsule) if capsule.close.is_none() && capsule.limit.is_none() => {
                Some(Source {
                    length: item.length,
                    shape: Shape::Capsule(CapsuleShape::of(capsule)),
                    has_capsules: false,
                })
            }
            _ => None,
        }
    }

    /// Returns what the line of a frame of this length is made from, or `None` if it has contents.
    fn of_frame(length: usize, frame: &FrameItem) -> Option<Self> {
        match has_no_capsules(&frame.parts) {
            Some(has_capsules) => Some(Source {
                length,
                shape: Shape::Frame(FrameShape::of(frame)),
                has_capsules,
            }),
            None => None,
        }
    }

    /// Returns whether the line of an item with the other source is that of one with this source, but
    /// for the offset.
    fn is_like(&self, other: &Source) -> bool
        ensures { IsTrue result → IsLikeSource self.now other.now }
    {
        self.length == other.length
            && self.has_capsules == other.has_capsules
            && self.shape.is_like(&other.shape)
    }

    /// Returns the same.
    fn copied(&self) -> Self
        ensures { IsLikeSource result self.now }
    {
        Source {
            length: self.length,
            shape: self.shape.copied(),
            has_capsules: self.has_capsules,
        }
    }
}

/// Returns whether a payload has capsules, of which there are none, or is not interpreted. `None` if
/// it has contents.
fn has_no_capsules(parts: &Parts) -> Option<bool> {
    match parts {
        Parts::Opaque => Some(false),
        Parts::Capsules(capsules) if capsules.is_empty() => Some(true),
        _ => None,
    }
}

/// The line of an item after its offset, which the lines of items like it share.
#[derive(Drop)]
pub(super) struct KeptLine {
    source: Source,
    rest: LineEnd,
}

/// The end of a line of JSON, which completes it after the first member of its object.
#[derive(Drop)]
struct LineEnd {
    bytes: Vec<u8>,
}

// The bytes.
impl Model for LineEnd {
    ghost use Rattle.std.specs.Prelude.{List, ℕ};
    ghost use Rattle.wt_inspection_views.specs.Sources.{IsLikeSource};
    ghost use Rattle.wt_inspection_views.specs.JsonLines.{CompletesLine};

    ghost Value = { List ℕ };

    ghost view = { λ end. end.bytes.items };

    ghost invariant = { λ end. CompletesLine end.bytes.items };
}

impl LineEnd {
    /// Returns the end of this line, after the brace of its object.
    ///
    /// Returns [`AllocError`] if allocation fails.
    fn of(alloc: Global, line: &[u8]) -> Result<Self, AllocError>
        requires { IsJsonLine line.now }
    {
        Ok(LineEnd {
            bytes: rest_of(alloc, line)?,
        })
    }

    /// Returns the bytes.
    fn as_slice(&self) -> &[u8]
        ensures { CompletesLine result.now }
    {
        self.bytes.as_slice()
    }
}

impl KeptLine {
    /// Makes the line of an item.
    ///
    /// Returns [`AllocError`] if allocation fails.
    pub(super) fn new(alloc: Global, source: &Source) -> Result<Self, AllocError>
        ensures { IfOk result (λ kept. IsLikeSource kept.source source.now) }
    {
        let mut object = Object::new(alloc, Vec::new(alloc));
        add_shape(&mut object, source);
        let line = object.into_line()?;
        Ok(KeptLine {
            source: source.copied(),
            rest: LineEnd::of(alloc, line.as_slice())?,
        })
    }

    /// Returns whether this is the line of an item like this one.
    pub(super) fn is_of(&self, source: &Source) -> bool
        ensures { IsTrue result → IsLikeSource self.now.source source.now }
    {
        self.source.is_like(source)
    }

    /// Appends the line of an item at this offset.
    ///
    /// Returns [`AllocError`] if allocation fails. The text is then unchanged.
    pub(super) fn add_to(
        &self,
        text: &mut Vec<u8>,
        at: u64,
        source: &Source,
    ) -> Result<(), AllocError>
        requires { IsLikeSource self.now.source source.now }
        ensures added { OnOk result ((line : List ℕ) × IsJsonLine line
            × (text.new.items ≡ text.old.items ++ line)) }
        ensures kept { OnErr result (text.new.items ≡ text.old.items) }
    {
        add_placed(text, at, self.rest.as_slice())
    }
}

/// Returns what completes a line as the members of this line do.
#[tactic(auto, using(crate::proofs::KeptLemmas::some_line, crate::proofs::KeptLemmas::completes))]
fn rest_of(alloc: Global, line: &[u8]) -> Result<Vec<u8>, AllocError>
    requires { IsJsonLine line.now }
    ensures { IfOk result (λ rest. CompletesLine rest.items) }
{
    members_of(alloc, &line[1..])
}

/// Returns members without the brace before them, after a comma unless there are none.
fn members_of(alloc: Global, members: &[u8]) -> Result<Vec<u8>, AllocError>
    ensures { IfOk result (λ rest. rest.items ≡ with_comma members.now) }
{
    let mut rest = Vec::new(alloc);
    if begins_with_quote(members) {
        rest.push(b',')?;
    }
    rest.extend_from_slice(members)?;
    Ok(rest)
}

/// Returns whether the first byte is a quote.
fn begins_with_quote(bytes: &[u8]) -> bool
    ensures { result ≡ (get_or bytes.now 0 0 == 34) }
{
    match bytes.first() {
        Some(byte) => *byte == b'"',
        None => false,
    }
}

/// Appends a line with this offset, which `rest` completes.
///
/// Returns [`AllocError`] if allocation fails. The text is then unchanged.
fn add_placed(text: &mut Vec<u8>, at: u64, rest: &[u8]) -> Result<(), AllocError>
    requires { CompletesLine rest.now }
    ensures added { OnOk result ((line : List ℕ) × IsJsonLine line
        × (text.new.items ≡ text.old.items ++ line)) }
    ensures kept { OnErr result (text.new.items ≡ text.old.items) }
{
    let mut buffer = Buffer::new();
    add_pieces(text, buffer.format(at).as_bytes(), rest)
}

/// Appends the beginning of a line, a number and the rest of the line.
///
/// Returns [`AllocError`] if allocation fails. The text is then unchanged.
fn add_pieces(text: &mut Vec<u8>, number: &[u8], rest: &[u8]) -> Result<(), AllocError>
    ensures added { OnOk result (text.new.items
        ≡ text.old.items ++ (codes "{\"at\":" ++ (number.now ++ rest.now))) }
    ensures kept { OnErr result (text.new.items ≡ text.old.items) }
{
    let length = number.len().saturating_add(rest.len());
    text.reserve(length.saturating_add(FIRST.len()))?;
    text.extend_from_slice(FIRST)?;
    text.extend_from_slice(number)?;
    text.extend_from_slice(rest)
}
