//! Lists of fields, which are encoded without the dynamic table.

ghost use Rattle.std.specs.Prelude.{◌≡◌, ◌++◌, OnOk, IfOk, string_bytes};
ghost use Rattle.wtp_qpack.specs.FieldSection.{shortest_section};
ghost use Rattle.wt_qpack.specs.Lines.{list_in, section_line};

use crate::command::Field;
use crate::text::add_bytes;
use std::alloc::{AllocError, Global};
use wtp_fields::fields::FieldList;

/// Returns fields as a list.
#[tactic(auto, using(std::proofs::lemmas::List::map_more))]
fn list_of(alloc: Global, fields: &[Field]) -> Result<FieldList, AllocError>
    ensures { IfOk result (λ list. list ≡ list_in fields.now) }
{
    let mut list = FieldList::from_fields(alloc, &[])?;
    for field in fields {
        list.append(field.name.as_slice(), field.value.as_slice())?;
    }
    Ok(list)
}

/// Encodes fields as a list does, and appends the line of the section.
pub fn add_list(alloc: Global, fields: &[Field], out: &mut String) -> Result<(), AllocError>
    ensures { OnOk result (string_bytes out.new
        ≡ string_bytes out.old ++ section_line (shortest_section (list_in fields.now))) }
{
    let list = list_of(alloc, fields)?;
    let section = list.encode(alloc)?;
    write!(out, "section ")?;
    add_bytes(out, alloc, section.as_slice())?;
    writeln!(out, "")
}
