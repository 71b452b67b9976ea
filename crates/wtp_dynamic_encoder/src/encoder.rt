//! The encoder: its table, the sections that it sent, and what the decoder told it.

ghost use Rattle.std.specs.Prelude.{◌≡◌, ◌^◌, ◌<◌, ◌≤◌, ◌++◌, [], length, MatchResult};
ghost use Rattle.wtp_dynamic.specs.Table.{empty_table, insert_count};
ghost use Rattle.wtp_dynamic.specs.InsertCount.{most_entries};
ghost use Rattle.wtp_dynamic.specs.EncoderState.{Owes, FewWait};
ghost use Rattle.wtp_dynamic_encoder.specs.Acknowledging.{most_bytes};
ghost use Rattle.wtp_dynamic_encoder.specs.Choosing.{default_policy};
ghost use Rattle.wtp_dynamic_encoder.specs.Encoding.{Runs, State, held_count, encoder_of, limited, is_unused, InsertsIf, ResizesIf, Ordered, prefix_for, sent_at, opened, first_sections, bound_for, Encodes, PieceRead};

pub mod stored;

use crate::choice::{copy_of, draining_index};
use crate::decoder_stream::DecoderStream;
use crate::indexed::IndexedTable;
use crate::insertion;
use crate::key::{Key, fill_keys};
use crate::proposal::{Policy, Proposal};
use crate::section::{Lines, write_lines};
use std::alloc::{AllocError, Global};
use std::marker::Model;
use std::mem::replace;
use wtp_dynamic::error::DecoderStreamError;
use wtp_dynamic::ledger::{Ledger, Sent};
use wtp_dynamic::table::DynamicTable;

/// Returns below which absolute index a section of a stream may refer to entries: to none if as many
/// sections as may be are not acknowledged; to all that were inserted if the stream may be blocked;
/// and otherwise to those that are known to be received.
fn bound_of(policy: Policy, table: &IndexedTable, ledger: &Ledger, stream: u64, most: u64) -> u64
    requires { ledger.now.0 ≤ insert_count table.now }
    ensures within { result ≤ insert_count table.now }
    ensures value { result ≡ bound_for stream most policy ledger.now table.now }
{
    if ledger.len() as u64 >= policy.unacknowledged {
        0
    } else if ledger.may_block(stream, most) {
        table.insert_count()
    } else {
        ledger.known()
    }
}

/// Appends a section of a stream with these lines, and notes it if it refers to the table.
///
/// Returns [`AllocError`] if allocation failed; nothing has changed then.
fn send(
    stream: u64,
    table: &IndexedTable,
    ledger: &mut Ledger,
    lines: &Lines,
    out: &mut Vec<u8>,
) -> Result<(), AllocError>
    requires { 0 < lines.now.required → 0 < most_entries table.now.limit }
    ensures { let prefix = prefix_for table.now lines.now.required in MatchResult result
        (λ _. (ledger.new
        ≡ opened (sent_at stream lines.now.required lines.now.lowest) ledger.old)
        × (out.new.items ≡ out.old.items ++ (prefix ++ lines.now.bytes.items)))
        (λ _. (ledger.new ≡ ledger.old) × (out.new.items ≡ out.old.items)) }
{
    let len = out.len();
    lines.append(table, out)?;
    if lines.required == 0 {
        return Ok(());
    }
    let sent = Sent {
        stream,
        required: lines.required,
        lowest: lines.lowest,
    };
    match ledger.open(sent) {
        Ok(()) => Ok(()),
        Err(fault) => {
            out.truncate(len);
            Err(fault)
        }
    }
}

/// The encoder of a connection: the dynamic table, the sections that are not acknowledged, and what
/// the decoder told.
///
/// It evicts no entry of which it does not know that the decoder received it, and none to which a
/// section refers that is not acknowledged (section 2.1.1). It sends no section that may block more
/// streams than the decoder allows (section 2.1.2).
///
/// Between calls it keeps the memory that the largest section so far needed: for its lines, and at most
/// 96 bytes for each of its fields.
///
/// # Cost
///
/// A field is looked up in the dynamic table at most four times: by its texts and by its name, for its
/// insertion and for its line. A look-up goes over the entries whose hashes belong to one bucket, of
/// which there are at least as many as entries. Hashes have no key: whoever chooses the fields, as
/// clients of a proxy do, can give them the same hash. Then a look-up compares a field with every
/// entry, of which there are at most `limit / 32`: 128 in a table of 4 KiB. So a hostile list of `n`
/// fields costs at most `n * limit / 8` comparisons of texts, and the policy
/// [`Indexing::Without`](crate::proposal::Indexing::Without) keeps fields out of the table. A look-up
/// in the static table compares one name and one value at most, whatever they are.
#[derive(Drop)]
pub struct QpackEncoder {
    alloc: Global,
    table: IndexedTable,
    ledger: Ledger,
    decoder: DecoderStream,
    fault: Option<DecoderStreamError>,
    most: u64,
    policy: Policy,
    /// Memory for the keys of a section, and for its lines, which is kept from one to the next.
    keys: Vec<Key>,
    room: Vec<u8>,
}

// Contracts treat the encoder as its table, its ledger, the decoder stream, how many streams may be
// blocked, and its policy.
impl Model for QpackEncoder {
    ghost use Rattle.wtp_dynamic.specs.EncoderState.{Owes, FewWait};
    ghost use Rattle.wtp_dynamic_encoder.specs.Encoding.{State, progress_of, encoder_of};

    ghost Value = { State };

    ghost view = { λ e. record {
      table = e.table;
      ledger = e.ledger;
      progress = progress_of e.fault e.decoder;
      most = e.most;
      policy = e.policy;
    } };

    ghost invariant = { λ e. Owes (encoder_of e.table e.ledger)
        × FewWait e.most e.ledger.0 e.ledger.1 };
}

impl QpackEncoder {
    /// Creates an encoder with an empty table of capacity 0. `limit` and `most` are those that the
    /// decoder's settings announce: the largest capacity of the table, in bytes, and how many
    /// streams may be blocked. Nothing is allocated.
    #[tactic(auto, using(crate::proofs::Kept::start))]
    pub fn new(alloc: Global, limit: u64, most: u64) -> Self
        requires { limit < 2 ^ 60 }
        ensures { result ≡ record {
          table = empty_table limit;
          ledger = (0, []);
          progress = Runs [];
          most = most;
          policy = default_policy;
        } }
    {
        QpackEncoder {
            alloc,
            table: IndexedTable::new(alloc, limit),
            ledger: Ledger::new(alloc),
            decoder: DecoderStream::new(alloc),
            fault: None,
            most,
            policy: Policy::new(),
            keys: Vec::new(alloc),
            room: Vec::new(alloc),
        }
    }

    /// Sets the limits that the settings of the decoder announce, if nothing was inserted, no capacity was set
    /// and no section refers to the table. Returns whether they were set. So an encoder can be created with a
    /// limit of 0, which inserts nothing, before these settings come.
    pub fn set_limits(&mut self, limit: u64, most: u64) -> bool
        requires { limit < 2 ^ 60 }
        ensures set { result ≡ is_unused self.old.table self.old.ledger }
        ensures limits { self.new ≡ limited limit most self.old }
    {
        if !self.is_unused() {
            return false;
        }
        self.table = IndexedTable::new(self.alloc, limit);
        self.most = most;
        true
    }

    // Returns whether nothing was inserted, no capacity was set, no section is open and nothing was
    // acknowledged.
    fn is_unused(&self) -> bool
        ensures { result ≡ is_unused self.now.table self.now.ledger }
    {
        self.table.insert_count() == 0
            && self.table.table().capacity() == 0
            && self.ledger.known() == 0
            && self.ledger.len() == 0
    }

    /// Returns the policy.
    pub fn policy(&self) -> Policy
        ensures { result ≡ self.now.policy }
    {
        self.policy
    }

    /// Sets the policy, for all sections from here on.
    pub fn set_policy(&mut self, policy: Policy)
        ensures { self.new ≡ record self.old { policy = policy } }
    {
        self.policy = policy;
    }

    /// Returns the dynamic table.
    pub fn table(&self) -> &DynamicTable
        ensures { result.now ≡ self.now.table }
    {
        self.table.table()
    }

    /// Returns the Known Received Count: how many entries the decoder is known to have received
    /// (section 2.1.4).
    pub fn known(&self) -> u64
        ensures value { result ≡ self.now.ledger.0 }
        // What holds of every encoder.
        ensures owes { Owes (encoder_of self.now.table self.now.ledger) }
        ensures few { FewWait self.now.most self.now.ledger.0 self.now.ledger.1 }
    {
        self.ledger.known()
    }

    /// Returns how many sections are not acknowledged. A section is counted from the call of
    /// [`QpackEncoder::encode`] that wrote it, if it refers to the dynamic table.
    pub fn unacknowledged(&self) -> usize
        ensures { result ≡ length self.now.ledger.1 }
    {
        self.ledger.len()
    }

    /// Returns how many bytes of a cut instruction of the decoder stream are held: at most ten, and
    /// none after an error of the stream.
    pub fn held(&self) -> usize
        ensures count { result ≡ held_count self.now.progress }
        ensures few { result < most_bytes }
    {
        match self.fault {
            None => self.decoder.held(),
            Some(_) => 0,
        }
    }

    /// Sets the capacity of the table, and appends the instruction to the encoder stream (section
    /// 4.3.1). Returns whether it was set: the limit is not 0 (section 3.2.3), the capacity is at
    /// most the limit, and no entry has to go that may not.
    ///
    /// Returns [`AllocError`] if it may be set and allocation failed; nothing has changed then.
    #[tactic(auto, using(crate::proofs::Orders::one_step))]
    pub fn set_capacity(
        &mut self,
        capacity: u64,
        encoder_stream: &mut Vec<u8>,
    ) -> Result<bool, AllocError>
        ensures table { ResizesIf capacity self.old.ledger self.old.table self.new.table
            encoder_stream.old.items encoder_stream.new.items result }
        ensures orders { Ordered self.old.table self.new.table encoder_stream.old.items
            encoder_stream.new.items }
        ensures same { self.new ≡ record self.old { table = self.new.table } }
    {
        insertion::set_capacity(&mut self.table, &self.ledger, capacity, encoder_stream)
    }

    /// Inserts an entry into the table, and appends the instruction to the encoder stream. Returns
    /// whether it was inserted: it is not larger than the table, and no entry has to go that may
    /// not.
    ///
    /// The instruction is a Duplicate if the table has the entry (section 4.3.4). Otherwise it has
    /// the name of an entry of the static table, or else of the dynamic table (4.3.2), or else its
    /// own (4.3.3).
    ///
    /// Returns [`AllocError`] if it may be inserted and allocation failed; nothing has changed then.
    #[tactic(auto, using(crate::proofs::Orders::one_step))]
    pub fn insert(
        &mut self,
        name: &[u8],
        value: &[u8],
        encoder_stream: &mut Vec<u8>,
    ) -> Result<bool, AllocError>
        ensures table { InsertsIf (name.now, value.now) self.old.ledger self.old.table
            self.new.table encoder_stream.old.items encoder_stream.new.items result }
        ensures orders { Ordered self.old.table self.new.table encoder_stream.old.items
            encoder_stream.new.items }
        ensures same { self.new ≡ record self.old { table = self.new.table } }
    {
        let key = Key::of(name, value);
        let latest = copy_of(&self.table, key, name, value);
        insertion::insert_entry(
            self.alloc,
            &mut self.table,
            &self.ledger,
            key,
            latest,
            name,
            value,
            encoder_stream,
        )
    }

    /// Encodes the fields of a section of a stream, in their order: appends instructions to the
    /// encoder stream, and the section to the bytes of its stream.
    ///
    /// First each field that is proposed is inserted as [`QpackEncoder::insert`] does, unless one
    /// of the tables has it as an entry that is not draining (section 2.1.1.1), or it may not be.
    /// Then each line refers to the entry of the static table that has its name and value, or else
    /// to the latest such entry of the dynamic table; or else to the name of an entry; or else it
    /// has the texts. A field that is never indexed refers to no entry of the dynamic table that has
    /// its value, and its literal has the bit N (section 7.1.3).
    ///
    /// No line refers to an entry that is draining, or that the decoder may not have received while
    /// the stream may not be blocked; nor to any entry of the dynamic table while as many sections
    /// are unacknowledged as the [`Policy`] allows. The Base is the count of insertions, or 0 if no
    /// line refers to the dynamic table.
    ///
    /// Returns [`AllocError`] if allocation failed. No section is appended then; entries may have
    /// been inserted, and their instructions are in the encoder stream.
    pub fn encode(
        &mut self,
        stream: u64,
        proposals: &[Proposal<'_>],
        encoder_stream: &mut Vec<u8>,
        section: &mut Vec<u8>,
    ) -> Result<(), AllocError>
        ensures { Encodes stream proposals.now self.old self.new encoder_stream.old.items
            encoder_stream.new.items section.old.items section.new.items result }
    {
        fill_keys(&mut self.keys, proposals);
        insertion::insert_all(
            self.alloc,
            self.policy,
            &mut self.table,
            &self.ledger,
            proposals,
            self.keys.as_slice(),
            encoder_stream,
        )?;
        let low = draining_index(self.policy, &self.table);
        let bound = bound_of(self.policy, &self.table, &self.ledger, stream, self.most);
        let lines = match write_lines(
            replace(&mut self.room, Vec::new(self.alloc)),
            &self.table,
            low,
            bound,
            proposals,
            self.keys.as_slice(),
        ) {
            Ok(lines) => lines,
            Err(fault) => return Err(fault),
        };
        let sent = send(stream, &self.table, &mut self.ledger, &lines, section);
        self.room = lines.into_room();
        sent
    }

    /// Takes back sections that were encoded and are not sent: only the oldest `count` of those that
    /// are not acknowledged are kept.
    ///
    /// A section that is not sent is never acknowledged (section 4.4.1), and its entries could never
    /// be evicted. With the count of [`QpackEncoder::unacknowledged`] before a call of
    /// [`QpackEncoder::encode`], this undoes what the call noted of its section, and nothing else. The
    /// entries that the call inserted stay, so the instructions that it appended to the encoder stream
    /// still have to be sent. No section of which a byte was sent may be taken back.
    pub fn take_back(&mut self, count: usize)
        ensures { self.new ≡ record self.old { ledger = first_sections count self.old.ledger } }
    {
        self.ledger.truncate(count);
    }

    /// Reads the next piece of the decoder stream: does the instructions that are now complete
    /// (section 4.4).
    ///
    /// Returns the fault of the stream, or [`DecoderStreamError::Memory`] if allocation failed.
    /// What the instructions before it told is kept, and the stream has ended: every later call
    /// returns the same error and does nothing.
    pub fn read_decoder_stream(&mut self, piece: &[u8]) -> Result<(), DecoderStreamError>
        ensures { PieceRead self.old.progress piece.now self.old self.new result }
    {
        if let Some(fault) = self.fault {
            return Err(fault);
        }
        let count = self.table.insert_count();
        match self
            .decoder
            .read(self.alloc, &mut self.ledger, count, piece)
        {
            Ok(()) => Ok(()),
            Err(fault) => {
                self.fault = Some(fault);
                Err(fault)
            }
        }
    }
}
