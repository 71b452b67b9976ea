//! Laws of the definitions: the contract of each function is the law.

ghost use Rattle.std.specs.Prelude.{◌≡◌, ◌⊎◌, ℕ, ◌^◌, ◌<◌, ◌≤◌, List, [], ◌++◌, length, map, max};
ghost use Rattle.wtp_dynamic_encoder.specs.declared.proposal.Policy.{Policy};
ghost use Rattle.wtp_dynamic_encoder.specs.declared.proposal.Proposal.{Proposal};
ghost use Rattle.wtp_dynamic_encoder.specs.Choosing.{field_of};
ghost use Rattle.wtp_dynamic.specs.declared.error.DecoderStreamError.{DecoderStreamError};
ghost use Rattle.wtp_dynamic.specs.Table.{Table, Later, insert_count, table_size};
ghost use Rattle.wtp_dynamic.specs.Instruction.{Instruction};
ghost use Rattle.wtp_dynamic.specs.Stream as encoder_stream;
ghost use Rattle.wtp_dynamic.specs.Answer.{HasFields};
ghost use Rattle.wtp_dynamic.specs.EncoderState.{Encoder, Owes, IsOpen};
ghost use Rattle.wtp_dynamic_encoder.specs.Acknowledging.{Ledger, Stands, Reaches, Breaks};
ghost use Rattle.wtp_dynamic_encoder.specs.Encoding.{Ordered, AreOffered, IsSent, needed, sent_of, first_sections};

/// However a decoder stream is cut: what pieces lead to one after the other, they lead to joined;
/// and there is one result. What follows a fault changes nothing.
pub fn pieces_of_decoder_streams()
    ensures piece { (inserted : ℕ) (start : Ledger) (bytes : List ℕ) (ledger : Ledger) (held piece : List ℕ)
        (after : Ledger) (left : List ℕ) → Stands inserted start bytes ledger held
        → Stands inserted ledger (held ++ piece) after left
        → Stands inserted start (bytes ++ piece) after left }
    ensures fault { (inserted : ℕ) (start : Ledger) (bytes : List ℕ) (ledger : Ledger) (held piece : List ℕ)
        (after : Ledger) (e : DecoderStreamError) → Stands inserted start bytes ledger held
        → Breaks inserted ledger (held ++ piece) after e
        → Breaks inserted start (bytes ++ piece) after e }
    ensures over { (inserted : ℕ) (start : Ledger) (bytes more : List ℕ) (after : Ledger)
        (e : DecoderStreamError) → Breaks inserted start bytes after e
        → Breaks inserted start (bytes ++ more) after e }
    ensures only { (inserted : ℕ) (start : Ledger) (bytes : List ℕ) (ledger : Ledger) (held : List ℕ)
        (other : Ledger) (left : List ℕ) → Stands inserted start bytes ledger held
        → Stands inserted start bytes other left → (ledger ≡ other) × (held ≡ left) }
    ensures either { (inserted : ℕ) (start : Ledger) (bytes : List ℕ) (ledger : Ledger) (held : List ℕ)
        (other : Ledger) (e : DecoderStreamError) → Stands inserted start bytes ledger held
        → ¬ Breaks inserted start bytes other e }
    ensures one_fault { (inserted : ℕ) (start : Ledger) (bytes : List ℕ) (ledger other : Ledger)
        (e f : DecoderStreamError) → Breaks inserted start bytes ledger e
        → Breaks inserted start bytes other f → (ledger ≡ other) × (e ≡ f) }
{}

/// What an encoder appends to its stream, a decoder with the same table reads, whatever follows: it
/// then has the encoder's table.
///
/// With a limit of 0 it appends nothing (section 3.2.3).
pub fn orders_of_encoders()
    ensures read { (old new : Table) (before after rest : List ℕ) → Ordered old new before after
        → (bytes : List ℕ) × (after ≡ before ++ bytes) × (instructions : List Instruction)
        × encoder_stream.Leads instructions old (bytes ++ rest) new rest }
    ensures silent { (old new : Table) (before after : List ℕ) → Ordered old new before after
        → old.limit ≡ 0 → after ≡ before }
{}

/// A section that was sent reads as its fields: at each decoder of the encoder's stream that has
/// received what the encoder knows of, and what the section needs, as long as it is not
/// acknowledged, however the encoder went on.
pub fn sections_of_encoders()
    ensures { (stream most : ℕ) (policy : Policy) (proposals : List Proposal) (written : Table) (before after : Ledger)
        (section : List ℕ) (sent : IsSent stream most policy proposals written before after [] section)
        (now : Encoder) (decoder : Table) → Owes now
        → (needed sent.plans ≡ 0) ⊎ IsOpen (sent_of stream sent.plans sent.lowest) now.sections
        → Later written now.table → Later decoder now.table
        → table_size now.table.live ≤ now.table.limit → now.known ≤ insert_count decoder
        → needed sent.plans ≤ insert_count decoder
        → insert_count written < 2 ^ 62 → decoder.limit < 2 ^ 62
        → HasFields decoder section (map field_of proposals) }
{}

/// A section that is taken back leaves the sections that were not acknowledged before it, and the
/// Known Received Count, whether it refers to the dynamic table or not.
pub fn sections_taken_back()
    ensures { (stream most : ℕ) (policy : Policy) (proposals : List Proposal) (written : Table) (old new : Ledger)
        (before after : List ℕ) → IsSent stream most policy proposals written old new before after
        → first_sections (length old.1) new ≡ old }
{}

/// An encoder needs no more room than its capacity and its policy say: fields that are encoded leave the
/// capacity as it is, and a section is noted only while fewer are not acknowledged than the policy
/// allows. The decoder stream leaves no more sections than there were.
pub fn encoders_keep_their_room()
    ensures capacity { (policy : Policy) (proposals : List Proposal) (ledger : Ledger) (old new : Table)
        (before after : List ℕ) → AreOffered policy proposals ledger old new before after
        → new.capacity ≡ old.capacity }
    ensures sent { (stream most : ℕ) (policy : Policy) (proposals : List Proposal) (written : Table)
        (old new : Ledger) (before after : List ℕ)
        → IsSent stream most policy proposals written old new before after
        → length new.1 ≤ max (length old.1) policy.unacknowledged }
    ensures read { (inserted : ℕ) (start : Ledger) (bytes : List ℕ) (ledger : Ledger) (held : List ℕ)
        → Stands inserted start bytes ledger held → length ledger.1 ≤ length start.1 }
    ensures failed { (inserted : ℕ) (start : Ledger) (bytes : List ℕ) (ledger : Ledger)
        → Reaches inserted start bytes ledger → length ledger.1 ≤ length start.1 }
{}
