//! The line before those of a part of a connection.
ghost use Rattle.wt_inspection_views.specs.Objects.{AddsLines, AddsMembers};

use super::object::{Lines, Object, Origin};

/// What is known of a part of a connection before its bytes are read.
#[derive(Clone, Copy)]
pub struct PartHead<'a> {
    /// What it is for.
    pub purpose: &'static str,
    /// What it is shown with.
    pub group: &'static str,
    /// The ID of the session or the request that it is shown with.
    pub id: Option<u64>,
    /// The file that has it.
    pub file: &'a str,
    /// Its number of bytes.
    pub length: usize,
    /// What is wrong with it, beside what its items say.
    pub fault: Option<&'a str>,
}

/// Appends the line of a part: `item` is `part`, and the other members are those of `head`. The ID is
/// the value of a member that is named as its group is.
pub fn add_part(lines: &mut Lines, head: &PartHead<'_>)
    ensures { AddsLines 1 lines.old lines.new }
{
    let mut object = lines.begin();
    add_head(&mut object, head);
    lines.add(object)
}

/// Appends the members of a part.
fn add_head(object: &mut Object, head: &PartHead<'_>)
    ensures { AddsMembers object.old object.new }
{
    object.add_text("item", "part");
    object.add_text("purpose", head.purpose);
    add_group(object, head);
    object.add_number("length", head.length as u64);
    object.add_text("file", head.file);
    match head.fault {
        Some(fault) => object.add_text("fault", fault),
        None => {}
    }
}

/// Appends what a part is shown with.
fn add_group(object: &mut Object, head: &PartHead<'_>)
    ensures { AddsMembers object.old object.new }
{
    object.add_text("group", head.group);
    match head.id {
        Some(id) => object.add_number(head.group, id),
        None => {}
    }
}

/// Appends the members of an origin, if there is one.
pub(super) fn add_origin(object: &mut Object, origin: Option<Origin>)
    ensures { AddsMembers object.old object.new }
{
    match origin {
        Some(origin) => {
            object.add_number(origin.name, origin.number);
            object.add_text("from", origin.from)
        }
        None => {}
    }
}
