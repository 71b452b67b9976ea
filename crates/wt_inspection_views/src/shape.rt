//! What the lines of items without contents are made from, besides their offsets.
ghost use Rattle.std.specs.Prelude.{◌≡◌, IsTrue};
ghost use Rattle.wt_inspection_views.specs.Shapes.{IsLike, IsLikeCapsule};

use wt_inspection_model::item::{CapsuleItem, FrameItem, FrameName};

/// A frame without the contents of its payload.
#[derive(Clone, Copy, PartialEq, Eq)]
pub(crate) struct FrameShape {
    /// The name of its type.
    pub(crate) name: FrameName,
    /// Its type.
    pub(crate) number: u64,
    /// The declared length of its payload, in bytes.
    pub(crate) announced: u64,
    /// The number of payload bytes that are present.
    pub(crate) present: usize,
}

/// A capsule without its value.
#[derive(Drop)]
pub(crate) struct CapsuleShape {
    /// The name of its type.
    pub(crate) name: &'static str,
    /// Its type.
    pub(crate) number: u64,
    /// The declared length of its value, in bytes.
    pub(crate) announced: u64,
}

/// A frame or a capsule without contents.
#[derive(Drop)]
pub(crate) enum Shape {
    /// A frame.
    Frame(FrameShape),
    /// A capsule.
    Capsule(CapsuleShape),
}

impl FrameShape {
    /// Returns the shape of a frame.
    pub(crate) fn of(frame: &FrameItem) -> Self
        ensures name { result.name ≡ frame.now.name }
        ensures number { result.number ≡ frame.now.number }
        ensures announced { result.announced ≡ frame.now.announced }
        ensures present { result.present ≡ frame.now.present }
    {
        FrameShape {
            name: frame.name,
            number: frame.number,
            announced: frame.announced,
            present: frame.present,
        }
    }
}

impl CapsuleShape {
    /// Returns the shape of a capsule.
    pub(crate) fn of(capsule: &CapsuleItem) -> Self
        ensures name { result.name ≡ capsule.now.name }
        ensures number { result.number ≡ capsule.now.number }
        ensures announced { result.announced ≡ capsule.now.announced }
    {
        CapsuleShape {
            name: capsule.name,
            number: capsule.number,
            announced: capsule.announced,
        }
    }
}

impl CapsuleShape {
    /// Returns whether the other one has the same type and size.
    fn is_like(&self, other: &CapsuleShape) -> bool
        ensures { IsTrue result → IsLikeCapsule self.now other.now }
    {
        self.number == other.number && self.announced == other.announced && self.name == other.name
    }
}

impl Shape {
    /// Returns whether the lines of items like the other one are those of items like this one, but for
    /// their offsets.
    pub(crate) fn is_like(&self, other: &Shape) -> bool
        ensures { IsTrue result → IsLike self.now other.now }
    {
        match (self, other) {
            (Shape::Frame(frame), Shape::Frame(other)) => *frame == *other,
            (Shape::Capsule(capsule), Shape::Capsule(other)) => capsule.is_like(other),
            _ => false,
        }
    }

    /// Returns the same shape.
    pub(crate) fn copied(&self) -> Self
        ensures { IsLike result self.now }
    {
        match self {
            Shape::Frame(frame) => Shape::Frame(*frame),
            Shape::Capsule(capsule) => Shape::Capsule(CapsuleShape {
                name: capsule.name,
                number: capsule.number,
                announced: capsule.announced,
            }),
        }
    }
}
