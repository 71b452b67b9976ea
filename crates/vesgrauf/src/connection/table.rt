//! The own streams of QPACK (RFC 9204, sections 4.2 to 4.4).
ghost use Rattle.std.specs.Prelude.{◌≡◌, ◌++◌, ◌+◌, nat_lt, true, OnOk, OnErr, IfErr, IfSome, []};
ghost use Rattle.vesgrauf.specs.Cuts.{Alone};
ghost use Rattle.vesgrauf.specs.Keeps.{Keeps};
ghost use Rattle.vesgrauf.specs.Own.{is_sent};
ghost use Rattle.vesgrauf.specs.State.{stream_at, IsStill, Instructs, SaysAll, SaysOrWaits, view_of, with_begun};
ghost use Rattle.vesgrauf.specs.declared.connection.Stop.TheVariants as stop;
ghost use Rattle.vesgrauf.specs.Bounds.{InstructionsFit};
ghost use Rattle.vesgrauf.specs.Instructions.{TellsInserts, Cancels, first_bytes, table_of};
ghost use Rattle.vesgrauf.specs.Told.{GoesOn};
ghost use Rattle.vesgrauf.specs.Ids.{count_unopened};
ghost use Rattle.vesgrauf.specs.Limits.{critical, most_unopened};
ghost use Rattle.vesgrauf.specs.declared.output.StreamKind.TheVariants as kinds;

use crate::connection::failing::EXCESSIVE_LOAD;
use crate::connection::{Connection, Stop};
use crate::output::StreamKind;
use std::alloc::AllocError;
use wtp_core::error::Code;
use wtp_dynamic_encoder::proposal::Policy;

/// No table is used if the peer allows one as large as this: no entry has such an index.
const LARGEST_TABLE: u64 = 1 << 60;

/// The type of an encoder stream, and of a decoder stream (RFC 9204, section 4.2).
const ENCODER_TYPE: u8 = 0x02;

const DECODER_TYPE: u8 = 0x03;

/// How many own critical streams there are: the control stream, and those two.
const CRITICAL: u64 = 3;

#[tactic(auto, using(crate::proofs::KeepsLemmas::keep))]
impl Connection {
    // Opens the own decoder stream, if the peer may use a dynamic table.
    #[tactic(auto, using(crate::proofs::KeepsLemmas::kept))]
    pub(super) fn begin_decoder(&mut self) -> Result<(), AllocError>
        ensures others { view_of self.new ≡ with_begun self.new (view_of self.old) }
        ensures control { self.new.control ≡ self.old.control }
        ensures instructions { OnOk result ((table_of self.new).bytes
            ≡ (table_of self.old).bytes ++ first_bytes self.old.config) }
        ensures goes { GoesOn [] self.old self.new }
    {
        if self.config.qpack_max_table_capacity == 0 {
            return Ok(());
        }
        self.told.push(DECODER_TYPE)?;
        self.decoder.id = self.take_critical();
        Ok(())
    }

    // Takes the ID of an own critical stream, if there is one left.
    #[tactic(auto, using(crate::proofs::KeepsLemmas::kept, crate::proofs::JoinedLemmas::joined_taken))]
    pub(super) fn take_critical(&mut self) -> Option<u64>
        ensures others { view_of self.new ≡ record (view_of self.old) { ids = self.new.ids } }
        ensures control { self.new.control ≡ self.old.control }
        ensures decoder { self.new.decoder ≡ self.old.decoder }
        ensures told { self.new.told ≡ self.old.told }
        ensures shared { self.new.shared ≡ self.old.shared }
        ensures config { self.new.config ≡ self.old.config }
        ensures goes { GoesOn [] self.old self.new }
    {
        let id = self.next_critical()?;
        self.ids.take(StreamKind::Unidirectional);
        Some(id)
    }

    // Returns the ID of an own critical stream, if there is one left, and one more may wait until QUIC opens it.
    fn next_critical(&self) -> Option<u64>
        ensures { IfSome result (λ id. nat_lt (count_unopened self.now.ids kinds.Unidirectional)
            (most_unopened self.now.config + critical) ≡ true) }
    {
        let most = self.config.max_unopened.max(1).saturating_add(CRITICAL);
        if self.ids.count_unopened(StreamKind::Unidirectional) < most {
            self.ids.next(StreamKind::Unidirectional)
        } else {
            None
        }
    }

    // Begins the own dynamic table, if the peer's SETTINGS came and allow one.
    pub(super) fn begin_table(&mut self) -> Result<(), Stop>
        ensures keeps { Keeps [] self.old self.new }
    {
        if !self.pending.begins_table {
            return Ok(());
        }
        self.open_encoder()?;
        self.pending.begins_table = false;
        Ok(())
    }

    // Opens the own encoder stream, if the peer allows a table.
    fn open_encoder(&mut self) -> Result<(), Stop>
        ensures keeps { Keeps [] self.old self.new }
    {
        let peer = self.shared.peer_settings();
        let capacity = peer
            .qpack_max_table_capacity
            .min(u64::from(self.config.encoder_table_capacity));
        let limit = peer.qpack_max_table_capacity;
        let is_possible = capacity > 0 && limit < LARGEST_TABLE;
        if !is_possible || self.next_critical().is_none() {
            return Ok(());
        }
        self.tools.instructions.reserve(16)?;
        self.tools
            .encoder
            .set_limits(limit, peer.qpack_blocked_streams);
        self.tools.instructions.push(ENCODER_TYPE)?;
        self.tools
            .encoder
            .set_capacity(capacity, &mut self.tools.instructions)?;
        self.encoder.id = self.take_critical();
        Ok(())
    }

    // Queues the instructions that are due on the own streams of QPACK.
    #[tactic(auto, using(crate::proofs::KeepsLemmas::keep, crate::proofs::InstructionLemmas::table_queued))]
    pub(super) fn queue_instructions(&mut self) -> Result<(), Stop>
        ensures ok { OnOk result (Instructs SaysAll self.old self.new) }
        ensures any { Instructs SaysOrWaits self.old self.new }
        ensures table { table_of self.new ≡ table_of self.old }
        ensures err { IfErr result (λ e. e ≡ stop.Memory) }
        ensures keeps { Keeps [] self.old self.new }
    {
        if self.decoder.id.is_some() {
            if self
                .decoder
                .push(&mut self.tools.spares, self.told.as_slice())
                .is_err()
            {
                return Err(Stop::Memory);
            }
            self.told.clear();
        }
        if self.encoder.id.is_some() {
            if self
                .encoder
                .push(&mut self.tools.spares, self.tools.instructions.as_slice())
                .is_err()
            {
                return Err(Stop::Memory);
            }
            self.tools.instructions.clear();
        }
        Ok(())
    }

    // Checks the bound of what waits on the own decoder stream.
    pub(super) fn check_instructions(&self) -> Result<(), Stop>
        ensures { OnOk result (InstructionsFit self.now) }
    {
        if self.decoder.queue.counted() > self.config.max_instructions {
            return Err(Stop::from(EXCESSIVE_LOAD));
        }
        Ok(())
    }

    // Queues the instructions that a section has made due. Without memory they are queued later.
    #[tactic(auto, using(crate::proofs::KeepsLemmas::kept, crate::proofs::InstructionLemmas::table_queued))]
    pub(super) fn queue_due(&mut self)
        ensures due { Instructs SaysOrWaits self.old self.new }
        ensures table { table_of self.new ≡ table_of self.old }
        ensures keeps { Keeps [] self.old self.new }
        ensures goes { GoesOn [] self.old self.new }
    {
        let _later = self.queue_instructions();
    }

    // Says which sections may refer to the own dynamic table: none, while its instructions wait (RFC 9204, section
    // 2.1.3).
    pub(super) fn choose_policy(&mut self)
        ensures still { IsStill self.old self.new }
        ensures policy { self.new.tools.encoder
            ≡ record self.old.tools.encoder { policy = self.new.tools.encoder.policy } }
        ensures instructions { self.new.tools.instructions ≡ self.old.tools.instructions }
    {
        let mut policy = Policy::new();
        if !self.encoder.is_free() || !self.tools.instructions.is_empty() {
            policy.largest = 0;
            policy.unacknowledged = 0;
        }
        self.tools.encoder.set_policy(policy);
    }

    // Tells the peer's encoder of the insertions that it does not know of (RFC 9204, section 4.4.3).
    #[tactic(auto, using(crate::proofs::KeepsLemmas::keep, crate::proofs::CancelLemmas::keeps_counted))]
    pub(super) fn count_inserts(&mut self) -> Result<(), AllocError>
        ensures ok { OnOk result (TellsInserts self.old self.new) }
        ensures err { OnErr result (IsStill self.old self.new) }
        ensures keeps { Keeps [] self.old self.new }
    {
        self.shared.increment(&mut self.told)
    }

    // Tells the peer's encoder that a stream is left, once (RFC 9204, section 2.2.2.2).
    #[tactic(auto, using(crate::proofs::KeepsLemmas::keep, crate::proofs::CancelLemmas::keeps_cancelled, crate::proofs::CutLemmas::alone, crate::proofs::ReadsLemmas::set_here, std::proofs::lemmas::Map::Steps::set_value_same, crate::proofs::PlaceLemmas::ordered, crate::proofs::JoinedLemmas::joined))]
    pub(super) fn cancel(&mut self, id: u64) -> Result<(), AllocError>
        ensures ok { OnOk result (Cancels id self.old self.new) }
        ensures err { OnErr result (IsStill self.old self.new) }
        ensures keeps { Keeps [] self.old self.new }
        ensures alone { Alone id self.old self.new }
        ensures sent { is_sent (stream_at self.new id) ≡ is_sent (stream_at self.old id) }
    {
        let Some(entry) = self.streams.get_mut(&id) else {
            return Ok(());
        };
        if !entry.may_cancel {
            return Ok(());
        }
        self.shared.cancel(id, &mut self.told)?;
        entry.may_cancel = false;
        Ok(())
    }

    // Tells the peer's encoder so of a stream that is left already. Without memory for it the connection ends: nothing would
    // tell it later.
    #[tactic(auto, using(crate::proofs::KeepsLemmas::keep, crate::proofs::CutLemmas::alone))]
    pub(super) fn cancel_left(&mut self, id: u64)
        ensures keeps { Keeps [] self.old self.new }
        ensures alone { Alone id self.old self.new }
    {
        if self.cancel(id).is_err() {
            self.fail(None, Code::H3_INTERNAL_ERROR.number().into_inner(), None);
        }
    }
}
