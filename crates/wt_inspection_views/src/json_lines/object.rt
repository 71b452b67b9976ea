//! Lines of JSON, one object per line.
ghost use Rattle.std.specs.Prelude.{◌≡◌, ℕ, Bool, true, false, List, [], ◌∷◌, IfOk, length};
ghost use Rattle.std.specs.List.{flat_map, list_any};
ghost use Rattle.std.specs.Prelude.{OnErr, OnOk, IsTrue, string_bytes};
ghost use Rattle.json.specs.Token.{Token};
ghost use Rattle.wt_inspection_views.specs.Escaped.{hex_byte};
ghost use Rattle.wt_inspection_views.specs.JsonLines.{has_unseen, is_late_byte, is_unseen};

use super::head::add_origin;
use super::kept::{KeptLine, Source};
use crate::characters::is_invisible;
use crate::escaped::add_hex_byte;
use crate::latch::Latch;
use json::Writer;
use std::alloc::{AllocError, Global};
use std::mem;

/// The initial capacity of an object, in bytes.
const INITIAL_CAPACITY: usize = 256;

/// The largest number that each reader of JSON has exactly: 2^53 - 1 (RFC 8259, section 6).
const LARGEST_NUMBER: u64 = 0x1f_ffff_ffff_ffff;

/// What lines are about, of a connection: the members that each line begins with.
#[derive(Clone, Copy)]
pub struct Origin {
    /// The name of the first member: what the number counts.
    pub name: &'static str,
    /// The number, as the ID of a stream.
    pub number: u64,
    /// The end that sent it, which is the member `from`.
    pub from: &'static str,
}

/// Lines of JSON. A failed allocation is recorded, and [`take`](Lines::take) and
/// [`into_bytes`](Lines::into_bytes) report it, so what appends lines returns nothing.
#[derive(Drop)]
pub struct Lines {
    alloc: Global,
    /// What the lines are about, if they are of a connection.
    origin: Option<Origin>,
    text: Vec<u8>,
    /// Room for an object, which is empty between objects.
    room: Vec<u8>,
    /// The line of the last item without contents.
    kept: Option<KeptLine>,
    is_whole: Latch,
}

impl Lines {
    ghost use Rattle.wt_inspection_views.specs.JsonLines.{AreJsonLines, in_object};
    ghost use Rattle.wt_inspection_views.specs.Objects.{AddsLines, HasLines, IsAt};

    /// Creates an empty list of lines.
    pub fn new(alloc: Global) -> Self
        ensures lines { HasLines 0 result }
        ensures whole { result.is_whole ≡ true }
    {
        Lines::about(alloc, None)
    }

    /// Creates an empty list of lines. Each line begins with the members of its origin, if there is
    /// one.
    #[tactic(auto, unfolding(crate::specs::Objects::HasLines))]
    pub fn about(alloc: Global, origin: Option<Origin>) -> Self
        ensures lines { HasLines 0 result }
        ensures whole { result.is_whole ≡ true }
    {
        Lines {
            alloc,
            origin,
            text: Vec::new(alloc),
            room: Vec::new(alloc),
            kept: None,
            is_whole: Latch::new(),
        }
    }

    /// Returns the length of the text, in bytes.
    pub fn len(&self) -> usize
        ensures { result ≡ length self.now.text.items }
    {
        self.text.len()
    }

    /// Returns the lines and leaves none, or [`AllocError`] if an allocation failed.
    pub fn take(&mut self) -> Result<Vec<u8>, AllocError>
        ensures lines { (n : ℕ) → HasLines n self.old
            → IfOk result (λ text. AreJsonLines n text.items) }
        ensures none { HasLines 0 self.new }
        ensures whole { self.new.is_whole ≡ true }
    {
        mem::replace(self, Lines::about(self.alloc, self.origin)).into_bytes()
    }

    /// Begins the object of the next line, with the members of the origin.
    pub(super) fn begin(&mut self) -> Object
        ensures object { IsAt (in_object []) result }
        ensures lines { (n : ℕ) → HasLines n self.old → HasLines n self.new }
    {
        let origin = self.origin;
        let mut object = self.begin_empty();
        add_origin(&mut object, origin);
        object
    }

    /// Begins the object of the next line, without members.
    #[tactic(auto, unfolding(crate::specs::Objects::HasLines))]
    fn begin_empty(&mut self) -> Object
        ensures object { IsAt (in_object []) result }
        ensures lines { (n : ℕ) → HasLines n self.old → HasLines n self.new }
    {
        let mut room = mem::replace(&mut self.room, Vec::new(self.alloc));
        room.clear();
        Object::new(self.alloc, room)
    }

    /// Ends an object and appends it as a line. Records a failed allocation.
    #[tactic(auto, unfolding(crate::specs::Objects::HasLines))]
    pub(super) fn add(&mut self, object: Object)
        requires { IsAt (in_object []) object }
        ensures { AddsLines 1 self.old self.new }
    {
        let added = self.try_add(object);
        self.is_whole.note(added);
    }

    /// Ends an object and appends it as a line.
    ///
    /// Returns [`AllocError`] if an allocation failed. The lines are then unchanged.
    fn try_add(&mut self, object: Object) -> Result<(), AllocError>
        requires { IsAt (in_object []) object }
        ensures added { OnOk result (AddsLines 1 self.old self.new) }
        ensures kept { OnErr result (self.new.text.items ≡ self.old.text.items) }
    {
        let line = object.into_line()?;
        self.text.extend_from_slice(line.as_slice())?;
        self.room = line;
        Ok(())
    }

    /// Returns whether the line of an item without contents at this offset may be kept: it begins with
    /// the offset, as a number.
    pub(super) fn keeps(&self, at: usize) -> bool {
        self.origin.is_none() && at as u64 <= LARGEST_NUMBER
    }

    /// Appends the line of an item without contents. Records a failed allocation.
    #[tactic(auto, unfolding(crate::specs::Objects::HasLines))]
    pub(super) fn add_kept(&mut self, at: usize, source: &Source)
        ensures { AddsLines 1 self.old self.new }
    {
        let added = self.try_kept(at as u64, source);
        self.is_whole.note(added);
    }

    /// Appends the line of an item without contents.
    ///
    /// Returns [`AllocError`] if an allocation failed. The lines are then unchanged.
    fn try_kept(&mut self, at: u64, source: &Source) -> Result<(), AllocError>
        ensures added { OnOk result (AddsLines 1 self.old self.new) }
        ensures kept { OnErr result (self.new.text.items ≡ self.old.text.items) }
    {
        match &self.kept {
            Some(kept) if kept.is_of(source) => kept.add_to(&mut self.text, at, source),
            _ => self.add_new(at, source),
        }
    }

    /// Appends the line of an item without contents, and keeps it.
    ///
    /// Returns [`AllocError`] if an allocation failed. The lines are then unchanged.
    fn add_new(&mut self, at: u64, source: &Source) -> Result<(), AllocError>
        ensures added { OnOk result (AddsLines 1 self.old self.new) }
        ensures kept { OnErr result (self.new.text.items ≡ self.old.text.items) }
    {
        let kept = KeptLine::new(self.alloc, source)?;
        kept.add_to(&mut self.text, at, source)?;
        self.kept = Some(kept);
        Ok(())
    }

    /// Returns the lines, or [`AllocError`] if an allocation failed.
    #[tactic(auto, unfolding(crate::specs::Objects::HasLines))]
    pub fn into_bytes(self) -> Result<Vec<u8>, AllocError>
        ensures { (n : ℕ) → HasLines n self → IfOk result (λ text. AreJsonLines n text.items) }
    {
        self.is_whole.finish(self.text)
    }
}

/// A JSON object whose members are appended in order. A failed allocation is recorded, and
/// [`into_line`](Object::into_line) reports it, so the methods that append members return
/// nothing. Each object has its own writer, over room that is empty: the kit's writer initializes up
/// to 16 KiB after a long text, and removes them when it ends.
#[derive(Drop)]
pub(super) struct Object {
    /// The allocator of the object.
    pub(super) alloc: Global,
    out: Writer<Global>,
    is_whole: Latch,
    ghost alone: { out.before ≡ [] },
}

impl Object {
    ghost use Rattle.wt_inspection_views.specs.JsonLines.{IsJsonLine, Place, in_object, in_array};
    ghost use Rattle.wt_inspection_views.specs.JsonLines.{after_name};
    ghost use Rattle.wt_inspection_views.specs.Objects.{AddsElements, AddsMembers, AddsName};
    ghost use Rattle.wt_inspection_views.specs.Objects.{AddsValue, IsAt};

    /// Creates an empty object, which is written to this room.
    #[tactic(auto, unfolding(crate::specs::Objects::IsAt))]
    pub(super) fn new(alloc: Global, room: Vec<u8>) -> Self
        requires { room.items ≡ [] }
        ensures { IsAt (in_object []) result }
    {
        let mut room = room;
        let reserved = room.reserve(INITIAL_CAPACITY);
        let mut out = Writer::new(room);
        let begun = out.begin_object();
        Object {
            alloc,
            out,
            is_whole: Latch::after(reserved.and(begun)),
        }
    }

    /// Records that an allocation failed.
    #[tactic(auto, unfolding(crate::specs::Objects::IsAt))]
    fn mark_failed(&mut self)
        ensures { (place : Place) → IsAt place self.new }
    {
        self.is_whole.mark_failed();
    }

    /// Records whether `added` is an error.
    fn note(&mut self, added: Result<(), AllocError>)
        ensures tokens { self.new.out ≡ self.old.out }
        ensures whole { IsTrue self.new.is_whole → IsTrue self.old.is_whole }
        ensures noted { OnErr added (self.new.is_whole ≡ false) }
    {
        self.is_whole.note(added);
    }

    /// Appends a member with a number as its value. One above [`LARGEST_NUMBER`] is a string of its
    /// digits.
    pub(super) fn add_number(&mut self, name: &str, number: u64)
        ensures { AddsMembers self.old self.new }
    {
        if number > LARGEST_NUMBER {
            let digits = format!(in self.alloc; "{number}");
            self.add_formatted(name, digits);
        } else {
            self.add_name(name);
            self.add_count(number);
        }
    }

    /// Appends a number as the value of a member.
    #[tactic(auto, unfolding(crate::specs::Objects::IsAt))]
    fn add_count(&mut self, number: u64)
        ensures { AddsValue self.old self.new }
    {
        let added = self.out.u64(number);
        self.note(added);
    }

    /// Appends a member with a text as its value.
    pub(super) fn add_text(&mut self, name: &str, text: &str)
        ensures { AddsMembers self.old self.new }
    {
        self.add_name(name);
        self.add_text_value(text)
    }

    /// Appends a text as a value: a string, or an object with its hexadecimal digits if the text
    /// has an unseen character.
    fn add_text_value(&mut self, text: &str)
        ensures member { AddsValue self.old self.new }
        ensures element { AddsElements self.old self.new }
    {
        if has_unseen(text) {
            self.add_hex_value(text.as_bytes())
        } else {
            self.add_string(text)
        }
    }

    /// Appends a string as a value.
    #[tactic(auto, unfolding(crate::specs::Objects::IsAt))]
    fn add_string(&mut self, text: &str)
        requires { has_unseen text.now ≡ false }
        ensures member { AddsValue self.old self.new }
        ensures element { AddsElements self.old self.new }
    {
        let added = self.out.string(text);
        self.note(added);
    }

    /// Appends a member with an allocated string as its value. Records a failed allocation of the
    /// string.
    pub(super) fn add_formatted(&mut self, name: &str, text: Result<String, AllocError>)
        ensures { AddsMembers self.old self.new }
    {
        match text {
            Ok(text) => self.add_text(name, text.as_str()),
            Err(_) => self.mark_failed(),
        }
    }

    /// Appends a member whose value is the hexadecimal digits of `bytes`.
    pub(super) fn add_hex(&mut self, name: &str, bytes: &[u8])
        ensures { AddsMembers self.old self.new }
    {
        match digits_of(self.alloc, bytes) {
            Ok(digits) => self.add_digits(name, digits),
            Err(_) => self.mark_failed(),
        }
    }

    /// Appends a member with these digits as its value.
    fn add_digits(&mut self, name: &str, digits: String)
        requires { has_unseen (string_bytes digits) ≡ false }
        ensures { AddsMembers self.old self.new }
    {
        self.add_name(name);
        self.add_string(digits.as_str())
    }

    /// Appends the name of a member. Its value must be appended next.
    #[tactic(auto, unfolding(crate::specs::Objects::IsAt))]
    pub(super) fn add_name(&mut self, name: &str)
        ensures { AddsName self.old self.new }
    {
        let added = self.out.key(name);
        self.note(added);
    }

    /// Appends bytes from a peer as a value: a string, or an object with their hexadecimal
    /// digits.
    pub(super) fn add_value(&mut self, bytes: &[u8])
        ensures member { AddsValue self.old self.new }
        ensures element { AddsElements self.old self.new }
    {
        match str::from_utf8(bytes) {
            Ok(text) => self.add_text_value(text),
            Err(_) => self.add_hex_value(bytes),
        }
    }

    /// Appends an object with the hexadecimal digits of `bytes` as a value.
    fn add_hex_value(&mut self, bytes: &[u8])
        ensures member { AddsValue self.old self.new }
        ensures element { AddsElements self.old self.new }
    {
        self.begin_object();
        self.add_hex("hex", bytes);
        self.end_object();
    }

    /// Begins an array as a value.
    #[tactic(auto, unfolding(crate::specs::Objects::IsAt))]
    pub(super) fn begin_array(&mut self)
        ensures member { (outer : List Bool) → IsAt (after_name outer) self.old
            → IsAt (in_array (true ∷ outer)) self.new }
        ensures element { (outer : List Bool) → IsAt (in_array outer) self.old
            → IsAt (in_array (false ∷ outer)) self.new }
    {
        let added = self.out.begin_array();
        self.note(added);
    }

    /// Ends an array.
    #[tactic(auto, unfolding(crate::specs::Objects::IsAt))]
    pub(super) fn end_array(&mut self)
        ensures member { (outer : List Bool) → IsAt (in_array (true ∷ outer)) self.old
            → IsAt (in_object outer) self.new }
        ensures element { (outer : List Bool) → IsAt (in_array (false ∷ outer)) self.old
            → IsAt (in_array outer) self.new }
    {
        let added = self.out.end_array();
        self.note(added);
    }

    /// Begins an object as a value.
    #[tactic(auto, unfolding(crate::specs::Objects::IsAt))]
    pub(super) fn begin_object(&mut self)
        ensures member { (outer : List Bool) → IsAt (after_name outer) self.old
            → IsAt (in_object (true ∷ outer)) self.new }
        ensures element { (outer : List Bool) → IsAt (in_array outer) self.old
            → IsAt (in_object (false ∷ outer)) self.new }
    {
        let added = self.out.begin_object();
        self.note(added);
    }

    /// Ends a nested object.
    #[tactic(auto, unfolding(crate::specs::Objects::IsAt))]
    pub(super) fn end_object(&mut self)
        ensures member { (outer : List Bool) → IsAt (in_object (true ∷ outer)) self.old
            → IsAt (in_object outer) self.new }
        ensures element { (outer : List Bool) → IsAt (in_object (false ∷ outer)) self.old
            → IsAt (in_array outer) self.new }
    {
        let added = self.out.end_object();
        self.note(added);
    }

    /// Ends the object and returns its line, or [`AllocError`] if an allocation failed.
    #[tactic(auto, unfolding(crate::specs::Objects::IsAt))]
    pub(super) fn into_line(self) -> Result<Vec<u8>, AllocError>
        requires { IsAt (in_object []) self }
        ensures { IfOk result (λ line. IsJsonLine line.items) }
    {
        let mut out = self.out;
        out.end_object()?;
        let mut line = out.into_inner();
        line.push(b'\n')?;
        self.is_whole.finish(line)
    }
}

/// Returns whether a text has a character that JSON does not escape and that is not seen, or
/// changes the direction of text: DEL, U+0080 to U+009F, or an invisible one.
#[tactic(auto, using(crate::proofs::DigitLemmas::ascii_is_seen))]
fn has_unseen(text: &str) -> bool
    ensures { result ≡ has_unseen text.now }
{
    if has_late_byte(text.as_bytes()) {
        has_unseen_char(text)
    } else {
        false
    }
}

/// Returns whether a byte is DEL or not ASCII.
fn has_late_byte(bytes: &[u8]) -> bool
    ensures { result ≡ list_any is_late_byte bytes.now }
{
    bytes.iter().any(|byte| is_late_byte(*byte))
}

/// Returns whether a byte is DEL or not ASCII.
fn is_late_byte(byte: u8) -> bool
    ensures { result ≡ is_late_byte byte }
{
    byte >= 0x7f
}

/// Returns whether a character of a text is DEL, one of U+0080 to U+009F, or invisible.
fn has_unseen_char(text: &str) -> bool
    ensures { result ≡ has_unseen text.now }
{
    text.chars().any(|c| is_unseen(c))
}

/// Returns whether a character is DEL, one of U+0080 to U+009F, or invisible.
fn is_unseen(c: char) -> bool
    ensures { result ≡ is_unseen c }
{
    (c >= '\u{7f}' && c <= '\u{9f}') || is_invisible(c)
}

/// Returns the hexadecimal digits of `bytes`.
fn digits_of(alloc: Global, bytes: &[u8]) -> Result<String, AllocError>
    ensures { IfOk result (λ digits. string_bytes digits ≡ flat_map hex_byte bytes.now) }
{
    let mut digits = String::new(alloc);
    for byte in bytes {
        add_hex_byte(&mut digits, *byte)?;
    }
    Ok(digits)
}
