//! Laws of the definitions: the contract of each function is the law.
ghost use Rattle.std.specs.Prelude.{◌≡◌, ◌⊎◌, ℕ, ◌+◌, ◌≤◌, List, [], ◌∷◌, ◌++◌, ◌<◌, ◌^◌, length, Ok, Some, true};
ghost use Rattle.wtp_dynamic.specs.declared.error.EncoderStreamError.{EncoderStreamError};
ghost use Rattle.wtp_dynamic.specs.Table.{Table, Change, History, SetsCapacity, Inserts, Shows, Later, insert_count, table_size, entry_size, resized, inserted, empty_table};
ghost use Rattle.wtp_qpack.specs.Field.{Field};
ghost use Rattle.std.specs.List.{flat_map};
ghost use Rattle.wtp_dynamic.specs.Instruction.{Instruction, SetCapacity, IsInstruction, instruction_at};
ghost use Rattle.wtp_dynamic.specs.Steps.{NeedsMemory as InstructionNeeds};
ghost use Rattle.wtp_dynamic.specs.InsertCount.{most_entries, IsMeant, encoded_count};
ghost use Rattle.wtp_dynamic.specs.Section.{Prefix, prefix_at, AreTableLines, is_never};
ghost use Rattle.wtp_dynamic.specs.Plans.{Plan, planned_line, planned_prefix, is_never_plan, ArePlans};
ghost use Rattle.wtp_dynamic.specs.Answer.{HasFields};
ghost use Rattle.wtp_dynamic.specs.Pair.{section_of, Paired};
ghost use Rattle.wtp_dynamic.specs.declared.ledger.Sent.{Sent};
ghost use Rattle.wtp_dynamic.specs.EncoderState.{Encoder, Owes, may_insert, may_resize, taken, with_entry, with_capacity, with_section, acknowledged, cancelled, incremented, IsOpen, AreFrom};
ghost use Rattle.wtp_dynamic.specs.Writing.{Order, written, Carries};
ghost use Rattle.wtp_dynamic.specs.Stream.{Leads, Stands, Breaks, HasFault, Lacks, OnlyCapacities, HasNoText};

/// However a stream is cut: what pieces lead to one after the other, they lead to joined; and there
/// is one result. What follows a fault changes nothing.
pub fn pieces_of_streams()
    ensures piece { (start : Table) (bytes : List ℕ) (table : Table) (held piece : List ℕ) (after : Table)
        (left : List ℕ) → Stands start bytes table held → Stands table (held ++ piece) after left
        → Stands start (bytes ++ piece) after left }
    ensures fault { (start : Table) (bytes : List ℕ) (table : Table) (held piece : List ℕ) (after : Table)
        (e : EncoderStreamError) → Stands start bytes table held
        → Breaks table (held ++ piece) after e → Breaks start (bytes ++ piece) after e }
    ensures over { (start : Table) (bytes more : List ℕ) (after : Table) (e : EncoderStreamError)
        → Breaks start bytes after e → Breaks start (bytes ++ more) after e }
    ensures only { (start : Table) (bytes : List ℕ) (table : Table) (held : List ℕ) (other : Table)
        (left : List ℕ) → Stands start bytes table held → Stands start bytes other left
        → (table ≡ other) × (held ≡ left) }
    ensures either { (start : Table) (bytes : List ℕ) (table : Table) (held : List ℕ) (other : Table)
        (e : EncoderStreamError) → Stands start bytes table held → ¬ Breaks start bytes other e }
    ensures one_fault { (start : Table) (bytes : List ℕ) (table other : Table) (e f : EncoderStreamError)
        → Breaks start bytes table e → Breaks start bytes other f → (table ≡ other) × (e ≡ f) }
{}

/// Memory is lacking only before the first fault: to set the capacity needs none, and an instruction
/// at fault needs none, unless it has Huffman text to decode. So where instructions that set the
/// capacity come first, or none, such a fault is returned however little memory there is.
pub fn faults_need_no_memory()
    ensures capacity { (capacity : ℕ) (table : Table)
        → ¬ InstructionNeeds (SetCapacity capacity) table }
    ensures fault { (table : Table) (bytes : List ℕ) (e : EncoderStreamError) (after : Table)
        → HasFault table bytes e → HasNoText table bytes → ¬ Lacks table bytes after }
    ensures later { (instructions : List Instruction) (start : Table) (bytes : List ℕ) (table : Table)
        (rest : List ℕ) (after : Table) → Leads instructions start bytes table rest
        → OnlyCapacities instructions → Lacks start bytes after → Lacks table rest after }
{}

/// The table is that of the standard: what is left after changes are the entries that are live by
/// the sizes of the entries and the capacities since they were inserted. A stream that led to a
/// table made changes, one for each instruction.
pub fn tables_of_histories()
    ensures empty { (limit : ℕ) → Shows [] (empty_table limit) }
    ensures set { (history : History) (table : Table) (capacity : ℕ) → Shows history table
        → Shows (SetsCapacity capacity ∷ history) (resized capacity table) }
    ensures insert { (history : History) (table : Table) (entry : Field)
        → entry_size entry ≤ table.capacity → Shows history table
        → Shows (Inserts entry ∷ history) (inserted entry table) }
    ensures stream { (instructions : List Instruction) (history : History) (table : Table) (bytes : List ℕ)
        (after : Table) (rest : List ℕ) → Shows history table
        → Leads instructions table bytes after rest
        → (changes : List Change) × (length changes ≡ length instructions)
        × Shows (changes ++ history) after }
{}

/// As a stream goes on, an absolute index names the same entry as long as that is live.
pub fn entries_stay()
    ensures { (instructions : List Instruction) (table : Table) (bytes : List ℕ) (after : Table)
        (rest : List ℕ) → Leads instructions table bytes after rest → Later table after }
{}

/// What an encoder writes is read back: the orders that lead from its table to another lead a
/// decoder with the same table there, whatever follows.
pub fn orders_are_read()
    ensures { (orders : List Order) (table after : Table) (rest : List ℕ)
        → Carries orders table after
        → (instructions : List Instruction)
        × Leads instructions table (flat_map written orders ++ rest) after rest }
{}

/// What an encoder writes of a section is read back: a count that is at most `most` away from the
/// insertions, any Base, and lines whose fields the table has, each of which is never indexed if it
/// was written so.
pub fn sections_are_read()
    ensures prefix { (table : Table) (required base : ℕ) (lines : List ℕ)
        → encoded_count (most_entries table.limit) required < 2 ^ 64 → base < 2 ^ 64 → required < 2 ^ 64
        → IsMeant (most_entries table.limit) (insert_count table)
        (encoded_count (most_entries table.limit) required) required
        → prefix_at table (planned_prefix (most_entries table.limit) required base ++ lines)
        ≡ Ok (record { required = required; base = base; lines = lines }) }
    ensures lines { (table : Table) (prefix : Prefix) (plans : List Plan) (fields : List Field)
        → prefix.base < 2 ^ 64 → ArePlans table prefix.required plans fields
        → AreTableLines table prefix (flat_map (planned_line prefix.base) plans) fields [] }
    ensures never { (base : ℕ) (plan : Plan) (rest : List ℕ)
        → is_never (planned_line base plan ++ rest) ≡ is_never_plan plan }
{}

/// The pair: a section that an encoder writes, with the table that it had then, a decoder of the
/// same stream reads as the same fields, as soon as it is not blocked, and as long as the encoder
/// keeps what it owes.
pub fn sections_of_pairs()
    ensures { (written now decoder : Table) (required base : ℕ) (plans : List Plan) (fields : List Field)
        → Paired written now decoder required plans → ArePlans written required plans fields
        → required ≤ insert_count decoder → base < 2 ^ 64 → required < 2 ^ 62
        → decoder.limit < 2 ^ 62
        → HasFields decoder (section_of decoder.limit required base plans) fields }
{}

/// A section that was blocked has the same prefix when it is tried again, unless far more entries
/// were inserted than it needs.
pub fn sections_are_tried_again()
    ensures { (table later : Table) (bytes : List ℕ) (prefix : Prefix) → later.limit ≡ table.limit
        → prefix_at table bytes ≡ Ok prefix
        → (prefix.required ≡ 0) ⊎ ((prefix.required ≤ insert_count later + most_entries table.limit)
        × (insert_count later < prefix.required + most_entries table.limit))
        → prefix_at later bytes ≡ Ok prefix }
{}

/// What an encoder owes, it still owes nothing more of after each step: an insertion or a change of
/// the capacity that passes the test, a section that refers to live entries, and each instruction
/// of the decoder stream.
pub fn encoders_keep_what_they_owe()
    ensures entry { (entry : Field) (encoder : Encoder) → Owes encoder
        → may_insert entry encoder ≡ true → Owes (with_entry entry encoder) }
    ensures capacity { (capacity : ℕ) (encoder : Encoder) → Owes encoder
        → may_resize capacity encoder ≡ true → Owes (with_capacity capacity encoder) }
    ensures section { (sent : Sent) (encoder : Encoder) → Owes encoder
        → encoder.table.dropped ≤ sent.lowest → sent.lowest < sent.required
        → sent.required ≤ insert_count encoder.table → Owes (with_section sent encoder) }
    ensures acknowledged { (stream : ℕ) (x : Sent × List Sent) (encoder : Encoder) → Owes encoder
        → taken stream encoder.sections ≡ Some x → Owes (acknowledged x encoder) }
    ensures cancelled { (stream : ℕ) (encoder : Encoder) → Owes encoder → Owes (cancelled stream encoder) }
    ensures incremented { (count : ℕ) (encoder : Encoder) → Owes encoder
        → encoder.known + count ≤ insert_count encoder.table → Owes (incremented count encoder) }
{}

/// The pair law for an encoder that keeps what it owes: a section that is not acknowledged reads as
/// its fields, at each decoder of the stream that has received what the encoder knows of, and what
/// the section needs.
pub fn sections_of_encoders()
    ensures { (encoder : Encoder) (written decoder : Table) (sent : Sent) (base : ℕ) (plans : List Plan)
        (fields : List Field) → Owes encoder → IsOpen sent encoder.sections → AreFrom sent.lowest plans
        → Later written encoder.table → Later decoder encoder.table
        → table_size encoder.table.live ≤ encoder.table.limit
        → encoder.known ≤ insert_count decoder → sent.required ≤ insert_count written
        → ArePlans written sent.required plans fields
        → sent.required ≤ insert_count decoder → base < 2 ^ 64 → sent.required < 2 ^ 62
        → decoder.limit < 2 ^ 62
        → HasFields decoder (section_of decoder.limit sent.required base plans) fields }
{}

/// Reading an instruction agrees with the relation of the standard: bytes that start with the bytes
/// of an instruction are read as it, whatever follows, and nothing else is.
pub fn instructions_of_bytes()
    ensures read { (instruction : Instruction) (s rest : List ℕ) → IsInstruction instruction s
        → instruction_at (s ++ rest) ≡ Ok (instruction, rest) }
    ensures found { (instruction : Instruction) (bytes rest : List ℕ)
        → instruction_at bytes ≡ Ok (instruction, rest)
        → (s : List ℕ) × IsInstruction instruction s × (bytes ≡ s ++ rest) }
{}
