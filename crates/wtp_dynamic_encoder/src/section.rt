//! The lines of a section: how each gives its field, and which entries they need (RFC 9204,
//! sections 2.1.2 and 4.5).

ghost use Rattle.std.specs.Prelude.{◌≡◌, ◌<◌, ◌≤◌, ◌^◌, List, [], ◌∷◌, ◌++◌, IfOk, IfSome, OnOk, MatchResult};
ghost use Rattle.wtp_dynamic.specs.Table.{insert_count};
ghost use Rattle.wtp_dynamic.specs.InsertCount.{most_entries};
ghost use Rattle.wtp_dynamic_encoder.specs.declared.proposal.Proposal.{Proposal};
ghost use Rattle.wtp_dynamic_encoder.specs.PlanView.{plan_of};
ghost use Rattle.wtp_dynamic_encoder.specs.Choosing.{field_of};
ghost use Rattle.wtp_dynamic_encoder.specs.Keys.{IsKey, AreKeys};
ghost use Rattle.wtp_dynamic_encoder.specs.Encoding.{place_of, prefix_for, raised, lowered, AreLines};

use crate::choice::choose;
use crate::indexed::IndexedTable;
use crate::key::{Key, key_at};
use crate::plan::{Plan, write_line, write_prefix};
use crate::proposal::Proposal;
use std::alloc::AllocError;

/// The lines of a section, the insertions that they need, and an absolute index below which they
/// refer to no entry.
#[derive(Drop)]
pub(crate) struct Lines {
    bytes: Vec<u8>,
    pub(crate) required: u64,
    pub(crate) lowest: u64,
}

impl Lines {
    /// Returns the memory of the lines.
    pub(crate) fn into_room(self) -> Vec<u8>
        ensures { result ≡ self.bytes }
    {
        self.bytes
    }

    /// Appends the section of these lines. Its Base is the count of insertions, or 0 if no line
    /// refers to the table.
    ///
    /// Returns [`AllocError`] if allocation failed; nothing is appended then.
    pub(crate) fn append(&self, table: &IndexedTable, out: &mut Vec<u8>) -> Result<(), AllocError>
        requires { 0 < self.now.required → 0 < most_entries table.now.limit }
        ensures { let prefix = prefix_for table.now self.now.required in MatchResult result
            (λ _. out.new.items ≡ out.old.items ++ (prefix ++ self.now.bytes.items))
            (λ _. out.new.items ≡ out.old.items) }
    {
        let len = out.len();
        let base = if self.required == 0 {
            0
        } else {
            table.insert_count()
        };
        match write_prefix(out, table.limit() / 32, self.required, base) {
            Ok(()) => match out.extend_from_slice(self.bytes.as_slice()) {
                Ok(()) => return Ok(()),
                Err(_) => out.truncate(len),
            },
            Err(_) => out.truncate(len),
        }
        Err(AllocError)
    }
}

/// Returns the absolute index of the entry of the dynamic table to which a line refers, if it does.
fn place_of(plan: Plan<'_>) -> Option<u64>
    ensures { place_of (plan_of plan.entry) ≡ result }
{
    match plan {
        Plan::TableField(place) => Some(place),
        Plan::TableName(_, place, _) => Some(place),
        _ => None,
    }
}

/// Notes that a line refers to an entry, if it does.
fn note(lines: &mut Lines, place: Option<u64>)
    requires { IfSome place (λ index. index < 2 ^ 62) }
    ensures bytes { lines.new.bytes.items ≡ lines.old.bytes.items }
    ensures required { lines.new.required ≡ raised place lines.old.required }
    ensures lowest { lines.new.lowest ≡ lowered place lines.old.lowest }
{
    match place {
        Some(index) => {
            lines.required = lines.required.max(index + 1);
            lines.lowest = lines.lowest.min(index);
        }
        None => {}
    }
}

/// Appends the line of a field, whose key this is.
#[tactic(auto, using(crate::proofs::Sections::lines_push))]
fn add_line(
    lines: &mut Lines,
    table: &IndexedTable,
    low: u64,
    bound: u64,
    key: Key,
    proposal: Proposal<'_>,
) -> Result<(), AllocError>
    requires bound { bound ≤ insert_count table.now }
    requires key { IsKey key (field_of proposal) }
    ensures { OnOk result ((proposals : List Proposal)
        → AreLines table.now low bound proposals lines.old.bytes.items lines.old.required
        lines.old.lowest
        → AreLines table.now low bound (proposals ++ proposal.entry ∷ []) lines.new.bytes.items
        lines.new.required lines.new.lowest) }
{
    let base = table.insert_count();
    let plan = choose(table, low, bound, key, proposal);
    write_line(&mut lines.bytes, base, plan)?;
    note(lines, place_of(plan));
    Ok(())
}

/// Writes the lines of proposals, whose keys these are, with the insertions so far as Base, by entries
/// with an absolute index from one on and below a bound. They replace what the room contains.
#[tactic(auto, using(crate::proofs::Sections::line_steps))]
pub(crate) fn write_lines(
    room: Vec<u8>,
    table: &IndexedTable,
    low: u64,
    bound: u64,
    proposals: &[Proposal<'_>],
    keys: &[Key],
) -> Result<Lines, AllocError>
    requires bound { bound ≤ insert_count table.now }
    requires keys { AreKeys keys.now proposals.now }
    ensures lines { IfOk result (λ lines. AreLines table.now low bound proposals.now
        lines.bytes.items lines.required lines.lowest) }
    ensures room { IfOk result (λ lines. 0 < lines.required
        → 0 < most_entries table.now.limit) }
{
    // Entries fit the limit, so a table with an entry has a limit of 32 at least.
    let _fits = table.size() <= table.capacity();
    let mut bytes = room;
    bytes.clear();
    let mut lines = Lines {
        bytes,
        required: 0,
        lowest: table.insert_count(),
    };
    for i in 0..proposals.len() {
        let proposal = proposals[i];
        let key = key_at(keys, i, proposal);
        add_line(&mut lines, table, low, bound, key, proposal)?;
    }
    Ok(lines)
}
