//! What an encoder decided, and its bytes: instructions of the encoder stream (RFC 9204, section
//! 4.3), and the prefix and lines of a section (section 4.5).

ghost use Rattle.std.specs.Prelude.{◌≡◌, ◌++◌, ◌+◌, ◌*◌, ◌-◌, ◌^◌, ◌<◌, nat_lt, if◌then◌else◌, OnOk};
ghost use Rattle.wtp_huffman.specs.HuffmanEncoding.{BeginsWith};
ghost use Rattle.wtp_qpack.specs.Integer.{shortest_int};
ghost use Rattle.wtp_dynamic.specs.Writing.{written};
ghost use Rattle.wtp_dynamic.specs.Plans.{planned_line, planned_prefix, never_bit};
ghost use Rattle.wtp_dynamic_encoder.specs.PlanView.{plan_of, order_of};

use std::alloc::AllocError;
use wtp_dynamic::insert_count;
use wtp_qpack::parts::{write_integer, write_string};

/// How a line gives its field: by entries of the tables, and by texts. A place is the absolute
/// index of an entry of the dynamic table. A literal is never indexed or not (the bit N, section
/// 7.1.3).
#[derive(Clone, Copy)]
pub enum Plan<'a> {
    /// An entry of the static table.
    StaticField(u64),
    /// An entry of the dynamic table.
    TableField(u64),
    /// The name of an entry of the static table, and a value.
    StaticName(bool, u64, &'a [u8]),
    /// The name of an entry of the dynamic table, and a value.
    TableName(bool, u64, &'a [u8]),
    /// A name and a value.
    NewName(bool, &'a [u8], &'a [u8]),
}

/// What the encoder does to the table.
#[derive(Clone, Copy)]
pub enum Order<'a> {
    /// Sets the capacity.
    Sets(u64),
    /// Inserts an entry with the name of another, which is of the static table or not.
    InsertsNamed(bool, u64, &'a [u8]),
    /// Inserts an entry with a name and a value.
    InsertsLiteral(&'a [u8], &'a [u8]),
    /// Inserts an entry again.
    Duplicates(u64),
}

/// Appends the start of an insertion with the name of an entry.
fn write_inserted_name(out: &mut Vec<u8>, is_static: bool, index: u64) -> Result<(), AllocError>
    ensures ok { OnOk result (out.new.items
        ≡ out.old.items ++ shortest_int 6 (if is_static then 3 else 2) index) }
    ensures front { BeginsWith out.old.items out.new.items }
{
    if is_static {
        write_integer::<6>(out, 3, index)
    } else {
        write_integer::<6>(out, 2, index)
    }
}

/// Returns the bit N.
fn never_bit(never: bool) -> u8
    ensures value { result ≡ never_bit never }
    ensures bit { result < 2 }
{
    if never { 1 } else { 0 }
}

/// Appends the start of a line with the name of an entry of the dynamic table.
fn write_name(out: &mut Vec<u8>, never: bool, base: u64, place: u64) -> Result<(), AllocError>
    ensures ok { OnOk result (out.new.items ≡ out.old.items ++ (if nat_lt place base
        then shortest_int 4 (4 + 2 * never_bit never) (base - 1 - place)
        else shortest_int 3 (never_bit never) (place - base))) }
    ensures front { BeginsWith out.old.items out.new.items }
{
    let bit = never_bit(never);
    if place < base {
        write_integer::<4>(out, 4 + 2 * bit, base - 1 - place)
    } else {
        write_integer::<3>(out, bit, place - base)
    }
}

/// Appends the instruction of an order.
///
/// Returns [`AllocError`] if allocation fails. Then `out` begins with what it contained before, and
/// what follows is unspecified.
pub fn write_order(out: &mut Vec<u8>, order: Order<'_>) -> Result<(), AllocError>
    ensures ok { OnOk result (out.new.items ≡ out.old.items ++ written (order_of order.entry)) }
    ensures front { BeginsWith out.old.items out.new.items }
{
    match order {
        Order::Sets(capacity) => write_integer::<5>(out, 1, capacity),
        Order::InsertsNamed(is_static, index, value) => {
            write_inserted_name(out, is_static, index)?;
            write_string::<7>(out, 0, value)
        }
        Order::InsertsLiteral(name, value) => {
            write_string::<5>(out, 1, name)?;
            write_string::<7>(out, 0, value)
        }
        Order::Duplicates(index) => write_integer::<5>(out, 0, index),
    }
}

/// Appends the prefix of a section.
///
/// Returns [`AllocError`] if allocation fails. Then `out` begins with what it contained before, and
/// what follows is unspecified.
pub fn write_prefix(
    out: &mut Vec<u8>,
    most: u64,
    required: u64,
    base: u64,
) -> Result<(), AllocError>
    requires few { most < 2 ^ 59 }
    requires some { 0 < required → 0 < most }
    ensures ok { OnOk result (out.new.items ≡ out.old.items ++ planned_prefix most required base) }
    ensures front { BeginsWith out.old.items out.new.items }
{
    write_integer::<8>(out, 0, insert_count::encode(most, required))?;
    if base < required {
        write_integer::<7>(out, 1, required - base - 1)
    } else {
        write_integer::<7>(out, 0, base - required)
    }
}

/// Appends a line. Indices count from the Base.
///
/// Returns [`AllocError`] if allocation fails. Then `out` begins with what it contained before, and
/// what follows is unspecified.
pub fn write_line(out: &mut Vec<u8>, base: u64, plan: Plan<'_>) -> Result<(), AllocError>
    ensures ok { OnOk result (out.new.items ≡ out.old.items ++ planned_line base (plan_of plan.entry)) }
    ensures front { BeginsWith out.old.items out.new.items }
{
    match plan {
        Plan::StaticField(index) => write_integer::<6>(out, 3, index),
        Plan::TableField(place) => {
            if place < base {
                write_integer::<6>(out, 2, base - 1 - place)
            } else {
                write_integer::<4>(out, 1, place - base)
            }
        }
        Plan::StaticName(never, index, value) => {
            write_integer::<4>(out, 5 + 2 * never_bit(never), index)?;
            write_string::<7>(out, 0, value)
        }
        Plan::TableName(never, place, value) => {
            write_name(out, never, base, place)?;
            write_string::<7>(out, 0, value)
        }
        Plan::NewName(never, name, value) => {
            write_string::<3>(out, 2 + never_bit(never), name)?;
            write_string::<7>(out, 0, value)
        }
    }
}
