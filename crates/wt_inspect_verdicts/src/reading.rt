//! What is known of the pieces of a recording by their items.

use std::alloc::{AllocError, Global};
use wt_inspection::item::{FrameItem, Instruction, Parts};
use wt_inspection::{Content, Insertions, Inspecting, Item, Recorded, instructions_in};
use wtp_dynamic::error::EncoderStreamError;

/// The largest capacity of a dynamic table that is read.
const MOST_CAPACITY: u64 = (1 << 60) - 1;

/// The type of a PUSH_PROMISE frame (RFC 9114, section 7.2.5).
const PUSH_PROMISE: u64 = 0x05;

/// Returns the payload of a frame that begins at an offset in these bytes, as far as it is there.
pub(crate) fn payload_of<'a>(bytes: &'a [u8], at: usize, frame: &FrameItem) -> &'a [u8] {
    let start = at.saturating_add(frame.head);
    let end = start.saturating_add(frame.present);
    bytes.get(start..end).unwrap_or(&[])
}

/// Returns how many bytes the type of a control stream and its first frame have.
///
/// Returns [`AllocError`] if allocation fails.
pub(crate) fn size_of_settings(alloc: Global, control: &[u8]) -> Result<usize, AllocError> {
    let mut size: usize = 0;
    let mut items = Inspecting::new(alloc, Recorded::Uni, control, true, None);
    for _item in 0..2 {
        if let Some(item) = items.next()? {
            size = size.saturating_add(item.length);
        }
    }
    Ok(size)
}

/// What is known of a message before it is judged.
#[derive(Clone, Copy)]
pub(crate) struct Outline {
    /// The encoded Required Insert Count of its first field section (RFC 9204, section 4.5.1.1), which
    /// is 0 if it needs no insertion.
    pub(crate) count: u64,
    /// Whether it has a PUSH_PROMISE.
    pub(crate) has_promise: bool,
}

impl Outline {
    /// Creates what is known of a message without field sections.
    pub(crate) fn new() -> Self {
        Outline {
            count: 0,
            has_promise: false,
        }
    }
}

/// Reads what is known of a message, of this kind.
///
/// Returns [`AllocError`] if allocation fails.
pub(crate) fn read_outline(
    alloc: Global,
    kind: Recorded,
    bytes: &[u8],
) -> Result<Outline, AllocError> {
    let mut outline = Outline::new();
    let mut first = None;
    let mut items = Inspecting::new(alloc, kind, bytes, true, None);
    for _item in 0..u64::MAX {
        let Some(item) = items.next()? else {
            break;
        };
        first = first.or(count_in(&item.content));
        outline.has_promise |= is_promise(&item.content);
    }
    outline.count = first.unwrap_or(0);
    Ok(outline)
}

/// Returns the encoded Required Insert Count of a field section, if the content is one.
fn count_in(content: &Content) -> Option<u64> {
    match content {
        Content::Frame(frame) => match &frame.parts {
            Parts::Fields(section) => Some(section.insert_count.unwrap_or(0)),
            _ => None,
        },
        _ => None,
    }
}

/// Returns whether the content is a PUSH_PROMISE.
fn is_promise(content: &Content) -> bool {
    match content {
        Content::Frame(frame) => frame.number == PUSH_PROMISE,
        _ => false,
    }
}

/// The type of an encoder stream, or an instruction.
#[derive(Clone, Copy)]
struct Step {
    /// How many bytes it has.
    size: usize,
    /// Whether it inserts an entry.
    inserts: bool,
}

/// The instructions of an encoder stream.
#[derive(Drop)]
pub(crate) struct Steps {
    /// The stream type, and each instruction after it. There is none if the stream is not recorded.
    steps: Vec<Step>,
    /// How many of them insert an entry.
    pub(crate) insertions: u64,
    /// The largest capacity that one of them sets.
    pub(crate) capacity: u64,
}

impl Steps {
    /// Creates the steps of a stream that is not recorded.
    fn new(alloc: Global) -> Self {
        Steps {
            steps: Vec::new(alloc),
            insertions: 0,
            capacity: 0,
        }
    }

    /// Returns whether the stream is recorded, and inserts no entry.
    pub(crate) fn is_without_table(&self) -> bool {
        !self.steps.is_empty() && self.insertions == 0
    }

    /// Returns how many steps there are.
    pub(crate) fn len(&self) -> usize {
        self.steps.len()
    }

    /// Returns how many bytes a step has: none, if there is no such step.
    pub(crate) fn size_of(&self, index: usize) -> usize {
        match self.steps.get(index) {
            Some(step) => step.size,
            None => 0,
        }
    }

    /// Returns whether a step inserts an entry.
    pub(crate) fn inserts(&self, index: usize) -> bool {
        match self.steps.get(index) {
            Some(step) => step.inserts,
            None => false,
        }
    }

    /// Takes an item of the stream.
    fn take(&mut self, item: &Item) -> Result<(), AllocError> {
        let mut inserts = false;
        match &item.content {
            Content::Instruction(Instruction::SetCapacity(capacity)) => {
                self.capacity = self.capacity.max(*capacity);
            }
            Content::Instruction(_) => inserts = true,
            _ => {}
        }
        self.insertions = self.insertions.saturating_add(u64::from(inserts));
        self.steps.push(Step {
            size: item.length,
            inserts,
        })?;
        Ok(())
    }
}

/// Reads the instructions of an encoder stream, if it is recorded.
///
/// Returns [`AllocError`] if allocation fails.
pub(crate) fn read_steps(alloc: Global, encoder: Option<&[u8]>) -> Result<Steps, AllocError> {
    match encoder {
        Some(bytes) => steps_in(alloc, bytes),
        None => Ok(Steps::new(alloc)),
    }
}

/// Returns the instructions of an encoder stream.
fn steps_in(alloc: Global, bytes: &[u8]) -> Result<Steps, AllocError> {
    let mut steps = Steps::new(alloc);
    let mut items = Inspecting::new(alloc, Recorded::Uni, bytes, true, None);
    for _item in 0..u64::MAX {
        match items.next()? {
            Some(item) => steps.take(&item)?,
            None => return Ok(steps),
        }
    }
    Ok(steps)
}

/// Reads the insertions of an encoder stream, if it is recorded, into a table of this capacity. Returns
/// `None` if the stream has a fault.
///
/// Returns [`AllocError`] if allocation fails.
pub(crate) fn read_insertions(
    alloc: Global,
    encoder: Option<&[u8]>,
    capacity: u64,
) -> Result<Option<Insertions<'_>>, AllocError> {
    let Some(bytes) = encoder else {
        return Ok(None);
    };
    match Insertions::read(alloc, capacity.min(MOST_CAPACITY), instructions_in(bytes)) {
        Ok(sent) => Ok(Some(sent)),
        Err(EncoderStreamError::Memory) => Err(AllocError),
        Err(_) => Ok(None),
    }
}
