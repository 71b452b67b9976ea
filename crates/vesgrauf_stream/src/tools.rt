//! What all streams of a connection share for sending.
ghost use Rattle.std.specs.Prelude.{◌≡◌, ℕ, List, [], OnOk, OnErr, IfErr};
ghost use Rattle.wtp_dynamic.specs.Table.{empty_table};
ghost use Rattle.wtp_dynamic_encoder.specs.Choosing.{default_policy};
ghost use Rattle.wtp_dynamic_encoder.specs.Encoding.{Runs};
ghost use Rattle.wtp_sending.specs.Encoded.{section_wire, SendsHeadAs, SendsTrailersAs};
ghost use Rattle.vesgrauf_stream.specs.Headers.{Encodes, RefusesAsHead, RefusesAsTrailers};

use std::alloc::Global;
use vesgrauf_queue::spares::Spares;
use wtp_dynamic_encoder::encoder::QpackEncoder;
use wtp_fields::fields::FieldList;
use wtp_sending::error::SendError;
use wtp_sending::message::Sending;

/// What all streams of a connection share for sending.
#[derive(Drop)]
pub struct Tools {
    /// The allocator.
    pub alloc: Global,
    /// Blocks that are used again.
    pub spares: Spares,
    /// The encoder of field sections.
    pub encoder: QpackEncoder,
    /// Instructions that are to be sent on the encoder stream.
    pub instructions: Vec<u8>,
    /// Memory for one frame, which is kept from one to the next.
    pub scratch: Vec<u8>,
}

impl Tools {
    /// Creates what a connection needs, with a table of capacity 0. Nothing is allocated.
    pub fn new(alloc: Global) -> Self
        ensures encoder { result.encoder ≡ record {
          table = empty_table 0;
          ledger = (0, []);
          progress = Runs [];
          most = 0;
          policy = default_policy;
        } }
        ensures instructions { result.instructions.items ≡ [] }
    {
        Tools {
            alloc,
            spares: Spares::new(alloc),
            encoder: QpackEncoder::new(alloc, 0, 0),
            instructions: Vec::new(alloc),
            scratch: Vec::new(alloc),
        }
    }

    // Writes HEADERS of a message to the scratch memory, which has nothing else then.
    pub(crate) fn write_headers(
        &mut self,
        message: &mut Sending,
        list: &FieldList,
    ) -> Result<(), SendError>
        ensures sent { OnOk result ((section : List ℕ)
            × SendsHeadAs section message.old list.now message.new
            × Encodes message.old.id list.now section self.old self.new
            × (self.new.scratch.items ≡ section_wire section)) }
        ensures refused { IfErr result (λ e. RefusesAsHead list.now self.old self.new message.old e) }
        ensures kept { OnErr result (message.new ≡ message.old) }
    {
        self.scratch.clear();
        message.headers_with(
            self.alloc,
            list,
            &mut self.encoder,
            &mut self.instructions,
            &mut self.scratch,
        )
    }

    // Writes trailers in the same way.
    pub(crate) fn write_trailers(
        &mut self,
        message: &mut Sending,
        list: &FieldList,
    ) -> Result<(), SendError>
        ensures sent { OnOk result ((section : List ℕ)
            × SendsTrailersAs section message.old list.now message.new
            × Encodes message.old.id list.now section self.old self.new
            × (self.new.scratch.items ≡ section_wire section)) }
        ensures refused { IfErr result (λ e. RefusesAsTrailers list.now self.old self.new message.old e) }
        ensures kept { OnErr result (message.new ≡ message.old) }
    {
        self.scratch.clear();
        message.trailers_with(
            self.alloc,
            list,
            &mut self.encoder,
            &mut self.instructions,
            &mut self.scratch,
        )
    }
}
