//! Laws of a connection, of its runs or of the steps that its calls take. Each function does nothing: its contract is the
//! law.
ghost use Rattle.std.specs.Prelude.{◌≡◌, ◌++◌, ◌+◌, ◌<◌, ◌≤◌, length, max, min, ℕ, Bool, List, [], ◌∷◌, Some, None, Ok, true, false};
ghost use Rattle.vesgrauf_queue.specs.declared.ending.Ending.TheVariants as ending;
ghost use Rattle.vesgrauf_stream.specs.Writing.{is_none};
ghost use Rattle.wtp_qpack.specs.Field.{Field};
ghost use Rattle.wtp_webtransport.specs.Events as say;
ghost use Rattle.wtp_webtransport.specs.declared.stream.Stream.{Stream};
ghost use Rattle.wtp_webtransport.specs.declared.event.HeadersKind.TheVariants as headers;
ghost use Rattle.vesgrauf.specs.declared.event.EventKind.TheVariants as event;
ghost use Rattle.vesgrauf.specs.declared.event.Tunnel.TheVariants as tunnel;
ghost use Rattle.vesgrauf.specs.Items.{Item, content, has_end, items_of, items_told};
ghost use Rattle.vesgrauf.specs.Theirs.{Theirs, Unread, Piece, IsCall};
ghost use Rattle.vesgrauf.specs.Runs.{Step, Tells, Does, Leads, IsToldOf, came, ends, told};
ghost use Rattle.vesgrauf.specs.declared.connection.Connection.{Connection};
ghost use Rattle.vesgrauf.specs.declared.entry.Told.TheVariants as entry;
ghost use Rattle.vesgrauf.specs.Told.{AreOthers, GoesOn, Says, Fails, Closes, Path, on, knows};
ghost use Rattle.vesgrauf.specs.declared.event.Event.{Event as EventOf};
ghost use Rattle.vesgrauf.specs.Halves.{Turn as Taken, Turns as Take, Holds, NotKnown, Has, OfOwn, OfPeer, OfBoth, after, after_told, after_queued, halves_at, may_end, told_by_all};
ghost use Rattle.vesgrauf.specs.Told.{Sound};
ghost use Rattle.vesgrauf.specs.Works.{Book, Calls, IsCall as IsOfConnection, Leads as LeadsBook, WorksBy, book_of, count_left, may_leave};
ghost use Rattle.vesgrauf.specs.Instructions.{Table, table_of, Does as SaysBy, Deed, Deeds, Reads, Leaves, Counts, Acknowledges, AreSaid, Turn, Turns, all_deeds, all_taken, bytes_of_all};
ghost use Rattle.wtp_dynamic.specs.declared.acknowledgment.Acknowledgment.{Acknowledgment};
ghost use Rattle.wtp_dynamic.specs.declared.acknowledgment.Acknowledgment.TheVariants as instruction;
ghost use Rattle.wtp_dynamic.specs.DecoderStream.{acknowledgment_bytes};
ghost use Rattle.wtp_dynamic.specs.Table.{insert_count};
ghost use Rattle.wtp_dynamic_decoder.specs.Decoder.{Decoder};
ghost use Rattle.wtp_webtransport.specs.Unacknowledged.{just_read};
ghost use Rattle.vesgrauf.specs.Calls.{Call, Run, told_in_all, opened_in, EndsOnce, says, closes};
ghost use Rattle.vesgrauf.specs.Cuts.{IsCut, is_read_out};
ghost use Rattle.vesgrauf.specs.Joined.{AreSevered, holds_in, is_severed};
ghost use Rattle.vesgrauf.specs.Members.{Linked};
ghost use Rattle.vesgrauf.specs.Own.{End, Sends, entry_at, is_sent, own_in};
ghost use Rattle.vesgrauf.specs.Ids.{count_unopened, next_own};
ghost use Rattle.vesgrauf.specs.Keeps.{Keeps};
ghost use Rattle.vesgrauf.specs.State.{is_over, open_session};
ghost use Rattle.vesgrauf.specs.declared.output.StreamKind.{StreamKind};
ghost use Rattle.vesgrauf.specs.declared.output.StreamKind.TheVariants as kind;
ghost use Rattle.wtp_frames.specs.declared.endpoint.Side.TheVariants as side;
ghost use Rattle.vesgrauf.specs.Bounds.{AllFit, Fits, IsBounded, most_kept};
ghost use Rattle.vesgrauf.specs.Kept.{AllKeep};
ghost use Rattle.vesgrauf.specs.Theirs.{theirs_in};
ghost use Rattle.vesgrauf.specs.declared.entry.Entry.{Entry as EntryOf};

/// What events told of a stream - its field sections, each with its kind and fields, its content, and its end -, joined in
/// their order, is what calls of the layer below say of the bytes that came on it, each of those that the one before left:
/// none is read twice, however the bytes were cut, kept, paused and resumed. Each call goes on in the state in which the one
/// before left the stream, but for an answer to its request, a session that it joins, and the like (`Moves`); with what its
/// streams have in common a call may be made in any state, but not in one that an error of the connection left, in which it
/// says nothing. The layer is told of the end with the last byte before it, and bytes after it do not count: they are an error of
/// QUIC. What the layer says of the bytes that are left is still to be told, unless the stream is read no further.
pub fn told_is_what_came()
    ensures { (steps : List Step) (s : Stream) (y : Theirs) → Leads steps (Unread [] false s) y
        → IsToldOf (came steps) (ends steps) s (told steps) y }
{}

/// After the end of a stream nothing is told of what came on it, and the end is told once.
pub fn the_end_is_last()
    ensures { (items : List Item) (steps : List Step) (x y z : Theirs) → Does (Tells items) x y → has_end items ≡ true
        → Leads steps y z → told steps ≡ [] }
{}

/// The definitions of what is told refuse an interim response as the final one, trailers as a head, a request for a session
/// as another one or as one for another tunnel, an end or content for what says nothing, a piece of content that is said and
/// left out, the end before the bytes that come before it, and a call after an error of the connection, which would read all
/// bytes without a word. Content in pieces is what they are together.
pub fn wrong_tellings_are_refused()
    ensures interim_as_final { (status : ℕ) (fields : List Field)
        → items_told (event.Response status fields) ≡ items_of (say.Headers (headers.Interim status) fields) → ⊥ }
    ensures trailers_as_head { (status : ℕ) (fields : List Field)
        → items_told (event.Response status fields) ≡ items_of (say.Headers headers.Trailers fields) → ⊥ }
    ensures session_as_request { (fields : List Field)
        → items_told (event.Request fields) ≡ items_of (say.SessionRequested fields) → ⊥ }
    ensures session_as_tunnel { (fields : List Field)
        → items_told (event.Connect tunnel.Other fields) ≡ items_of (say.SessionRequested fields) → ⊥ }
    ensures end_made_up { items_told event.End ≡ items_of say.More → ⊥ }
    ensures content_made_up { (b : ℕ) (bytes : List ℕ) → content (b ∷ bytes) ≡ items_of say.More → ⊥ }
    ensures content_left_out { (b : ℕ) (bytes : List ℕ) → [] ≡ items_of (say.Data (b ∷ bytes)) → ⊥ }
    ensures end_before_content { (b : ℕ) (bytes : List ℕ) (p : Piece) (s t : Stream) (k : IsCall (b ∷ bytes) true p s t)
        → k.fin ≡ true → p.reach ≡ 0 → ⊥ }
    ensures after_an_error { (bytes : List ℕ) (ended : Bool) (p : Piece) (s t : Stream) (k : IsCall bytes ended p s t)
        → k.c.over ≡ true → ⊥ }
    ensures accepted { (status : ℕ) (fields : List Field)
        → items_told (event.Response status fields) ≡ items_of (say.SessionReady status fields) }
    ensures pieces { (first rest : List ℕ) → content (first ++ rest) ≡ content first ++ content rest }
{}

/// Of a stream there is at most one last event, `Closed`, and none follows it: over all that `next_event` returned, and
/// what is queued.
pub fn closed_is_last_and_once()
    ensures { (calls : List Call) (d : Connection) → Run calls d → (id : ℕ)
        → EndsOnce (on id (told_in_all calls ++ d.events.items)) }
{}

/// A stream of which the program was told something, or that it opened, is known until its `Closed` was told or is queued.
pub fn known_streams_are_closed()
    ensures told { (calls : List Call) (d : Connection) → Run calls d → (id : ℕ)
        → says (on id (told_in_all calls ++ d.events.items)) ≡ true → knows d id ≡ false
        → closes (on id (told_in_all calls ++ d.events.items)) ≡ true }
    ensures opened { (calls : List Call) (d : Connection) → Run calls d → (id : ℕ)
        → opened_in id calls ≡ true → knows d id ≡ false
        → closes (on id (told_in_all calls ++ d.events.items)) ≡ true }
{}

/// The definitions refuse two last events, an event or a failure after the last one, one of a stream that is over, and
/// that a stream that is known is forgotten, or is not known, without an event. They allow a stream without events, one that
/// is opened, told of and closed, and a failure of one that is not known.
pub fn wrong_endings_are_refused()
    ensures two_ends { Path entry.NotYet (Says ∷ Closes ∷ Closes ∷ []) entry.Over → ⊥ }
    ensures after_the_end { Path entry.NotYet (Says ∷ Closes ∷ Says ∷ []) entry.Known → ⊥ }
    ensures failure_after_the_end { Path entry.Known (Closes ∷ Fails ∷ []) entry.Over → ⊥ }
    ensures of_an_ended_one { Path entry.Over (Says ∷ []) entry.Known → ⊥ }
    ensures forgotten { Path entry.Known [] entry.Over → ⊥ }
    ensures unknown { Path entry.Known [] entry.NotYet → ⊥ }
    ensures known_again { Path entry.Over [] entry.Known → ⊥ }
    ensures once { EndsOnce (Closes ∷ Closes ∷ []) → ⊥ }
    ensures last { EndsOnce (Closes ∷ Says ∷ []) → ⊥ }
    ensures none { Path entry.NotYet [] entry.Over }
    ensures whole { Path entry.NotYet (Says ∷ Says ∷ Closes ∷ []) entry.Over }
    ensures opened { Path entry.Known (Closes ∷ []) entry.Over }
    ensures failure { Path entry.NotYet (Fails ∷ []) entry.NotYet }
{}

/// In each run from the beginning each stream of a session is noted as one of it.
pub fn streams_of_sessions_are_noted()
    ensures sound { (calls : List Call) (d : Connection) → Run calls d → Sound d.streams.entries d.ids }
    ensures noted { (calls : List Call) (d : Connection) → Run calls d → Linked d.streams.entries d.ids }
{}

/// Of a stream that is cut, and that is not read up to an end that came, the last event, `Closed`, was told or is queued, if
/// the program was told of the stream, or opened it.
pub fn cut_streams_are_closed()
    ensures told { (calls : List Call) (d : Connection) → Run calls d → (id : ℕ)
        → IsCut (entry_at d.streams.entries id) → is_read_out (entry_at d.streams.entries id) ≡ false
        → says (on id (told_in_all calls ++ d.events.items)) ≡ true
        → closes (on id (told_in_all calls ++ d.events.items)) ≡ true }
    ensures opened { (calls : List Call) (d : Connection) → Run calls d → (id : ℕ)
        → IsCut (entry_at d.streams.entries id) → is_read_out (entry_at d.streams.entries id) ≡ false
        → opened_in id calls ≡ true
        → closes (on id (told_in_all calls ++ d.events.items)) ≡ true }
{}

/// The definition of a stream that is cut refuses one on which more is to be sent, and, unless its end came, one that the
/// program knows of and one that is read. It allows one that is forgotten.
pub fn wrong_cuts_are_refused()
    ensures sends { (e : EntryOf) (put : ℕ) (waits : List ℕ) (end : End) → own_in (Some e) ≡ Sends put waits end
        → is_sent (Some e) ≡ false → IsCut (Some e) → ⊥ }
    ensures known { (e : EntryOf) → e.told ≡ entry.Known → is_read_out (Some e) ≡ false → IsCut (Some e) → ⊥ }
    ensures reads { (e : EntryOf) (bytes : List ℕ) (ended : Bool) (at : Stream) → theirs_in (Some e) ≡ Unread bytes ended at
        → is_read_out (Some e) ≡ false → IsCut (Some e) → ⊥ }
    ensures forgotten { IsCut None }
{}

/// Of each connection, before and after each call: each stream of a session that is over is severed, but for the session's own
/// stream (draft-ietf-webtrans-http3-02, section 5). A session that is open is not over.
pub fn streams_of_ended_sessions_are_severed()
    ensures severed { (c : Connection) (session : ℕ) → holds_in (entry_at c.streams.entries session) ≡ false
        → AreSevered session c.streams.entries }
    ensures open { (c : Connection) (session : ℕ) → open_session c session ≡ Ok tt
        → holds_in (entry_at c.streams.entries session) ≡ true }
{}

/// The definition of a stream that is severed refuses one on which more may be sent, or the end is to be; and, unless its end
/// came, one that the program knows of and one that is read. It allows one that is forgotten.
pub fn wrong_severances_are_refused()
    ensures open { (e : EntryOf) → is_none e.writing.half ≡ false → e.writing.queue.ending ≡ ending.Open
        → is_severed (Some e) ≡ true → ⊥ }
    ensures finishing { (e : EntryOf) → is_none e.writing.half ≡ false → e.writing.queue.ending ≡ ending.Finishing
        → is_severed (Some e) ≡ true → ⊥ }
    ensures known { (e : EntryOf) → e.told ≡ entry.Known → e.is_ended ≡ false → is_severed (Some e) ≡ true → ⊥ }
    ensures reads { (e : EntryOf) (bytes : List ℕ) (ended : Bool) (at : Stream) → theirs_in (Some e) ≡ Unread bytes ended at
        → e.is_ended ≡ false → is_severed (Some e) ≡ true → ⊥ }
    ensures forgotten { is_severed None ≡ true }
{}

/// Over calls, of which each keeps the bound: one of `next_event` that returns and leaves the connection open, and those that keep
/// what is unread of each stream, unless it is read no further. Of each stream no more bytes are kept than the configuration that
/// the connection began with says, by `receive_buffer` and `max_paused` together. One byte more is refused by the definition.
#[tactic(auto, using(crate::proofs::KeptLemmas::all_keep, crate::proofs::KeptLemmas::too_many_kept))]
pub fn kept_bytes_are_bounded()
    ensures kept { (calls : List Connection) (c : Connection) (d : Connection) → IsBounded c → AllKeep calls c d
        → AllFit (most_kept c.config) d.streams.entries }
    ensures refused { (most : ℕ) (bytes : List ℕ) (ended : Bool) (at : Stream) → most < length bytes
        → Fits most (Unread bytes ended at) → ⊥ }
{}

/// Over calls that do not end the connection: of a stream that the program knew of before, and on which it and QUIC make no
/// call that may end a half, no own half is reset or given up, and no half of the peer is left unread, unless the program is
/// told so, or an event that says so is queued. For the own half that is `Stopped`, for the peer's `End` or `Reset`, and for
/// both `Closed`. Calls that may end a half of their own stream are `reset`, `stop_sending`, `abort`, `finish`, `respond`,
/// `close_session`, `sent` and `acked`. Of `wind_down`, which makes such calls on sessions, nothing is said.
#[tactic(auto, using(crate::proofs::LastsLemmas::halves_go_on))]
pub fn halves_go_on()
    ensures { (turns : List Taken) (c : Connection) (d : Connection) → Sound c.streams.entries c.ids
        → Take turns c d → (id : ℕ) → may_end id turns ≡ false
        → Holds (after_queued id d.events.items (after_told id (told_by_all turns) (halves_at c.streams.entries id)))
        (halves_at d.streams.entries id) }
{}

/// The definitions refuse that a half ends of which nothing is said, where only the other one is said to, and that a stream is
/// forgotten. They allow what is said, and anything of a stream that is not known, or was said to be over.
pub fn wrong_halves_are_refused()
    ensures own { (r : Bool) → Holds (Has true r) (Has false r) → ⊥ }
    ensures peer { (s : Bool) → Holds (Has s true) (Has s false) → ⊥ }
    ensures own_by_peer { (r : Bool) → Holds (after (Some OfPeer) (Has true r)) (Has false false) → ⊥ }
    ensures peer_by_own { (s : Bool) → Holds (after (Some OfOwn) (Has s true)) (Has false false) → ⊥ }
    ensures forgotten { (s : Bool) (r : Bool) → Holds (Has s r) NotKnown → ⊥ }
    ensures stopped { Holds (after (Some OfOwn) (Has true true)) (Has false true) }
    ensures ended { Holds (after (Some OfPeer) (Has true true)) (Has true false) }
    ensures closed { Holds (after (Some OfBoth) (Has true true)) NotKnown }
    ensures unknown { (s : Bool) (r : Bool) → Holds NotKnown (Has s r) }
{}

/// What QUIC takes of the own decoder stream, and then what waits there, is what waited at first and then whole instructions, in
/// the order of what is done: for bytes of a stream that are looked at at most one Section Acknowledgment with the ID of this
/// stream, for a stream that is left at most one Stream Cancellation, and for insertions at most one Insert Count Increment.
#[tactic(auto, using(crate::proofs::InstructionLemmas::turns_in_order))]
pub fn instructions_are_sent_in_order()
    ensures { (turns : List Turn) (t u : Table) → Turns turns t u
        → (said : List Acknowledgment) × AreSaid (all_deeds turns) said
        × (all_taken turns ++ u.bytes ≡ t.bytes ++ bytes_of_all said) }
{}

/// The step that reads a section with the own table acknowledges it once, on its stream, if its Required Insert Count is not
/// 0; where it reads none, nothing is said (RFC 9204, section 4.4.1).
#[tactic(auto, using(crate::proofs::InstructionLemmas::acknowledged_once, crate::proofs::InstructionLemmas::unread_is_silent))]
pub fn sections_are_acknowledged_once()
    ensures read { (id : ℕ) (t u : Table) (a : Acknowledges id t u) (k : Decoder) (required : ℕ)
        → a.d.decoder ≡ Some k → a.d.read ≡ Some (just_read required) → 0 < min required (insert_count k.table)
        → (u.bytes ≡ t.bytes ++ acknowledgment_bytes (instruction.Section id)) × (u.read ≡ None) }
    ensures unread { (id : ℕ) (t u : Table) (a : Acknowledges id t u) → a.d.read ≡ None → u.bytes ≡ t.bytes }
{}

/// At any time no more datagrams wait, no more sessions count, no more bytes are kept of all streams that QUIC's windows were
/// extended by, and no more own streams wait until QUIC opens them, than the configuration says, but for the critical ones. The
/// sessions of a client are not bounded by it. No more requests were given up before their answer than were answered and than
/// `max_resets` together, but for one, by which the connection ends.
pub fn limits_are_kept()
    ensures datagrams { (c : Connection) → length c.datagrams.queue.items ≤ max c.config.datagram_queue 1 }
    ensures sessions { (c : Connection) → c.config.side ≡ side.Server → c.sessions ≤ c.config.max_sessions }
    ensures held { (c : Connection) → c.held ≤ c.config.receive_buffer_all }
    ensures resets { (c : Connection) → c.budget.resets ≤ c.budget.answers + c.config.max_resets + 1 }
    ensures unopened { (c : Connection) → (count_unopened c.ids kind.Bidirectional ≤ max c.config.max_unopened 1)
        × (count_unopened c.ids kind.Unidirectional ≤ max c.config.max_unopened 1 + 3) }
{}

/// Over calls, while the connection lasts, of which each does some deeds for the own decoder stream, one after the other, and
/// nothing else, or lets QUIC take bytes of it: bytes of a stream are looked at in the state in which the calls before left the
/// stream, and the section that is read with the own table is acknowledged at once, on this stream; a stream that may be
/// cancelled is left, and may not be cancelled again; insertions are counted. Each stream is cancelled at most once. What QUIC
/// takes, and then what waits, is what waited at first, as after `new` the type of the stream, and then the instructions of
/// these deeds, whole and in their order. Each call says that it is one of these, but one of `next_event` that memory was
/// refused for.
#[tactic(auto, using(crate::proofs::DeedLemmas::calls_say))]
pub fn decoder_streams_go_by_deeds()
    ensures { (n : ℕ) (c d : Connection) → Sound c.streams.entries c.ids → Calls n c d
        → (turns : List Turn) × LeadsBook turns (book_of c) (book_of d)
        × ((id : ℕ) → count_left (all_deeds turns) id ≤ 1)
        × ((said : List Acknowledgment) × AreSaid (all_deeds turns) said
        × (all_taken turns ++ (table_of d).bytes ≡ (table_of c).bytes ++ bytes_of_all said)) }
{}

/// `request` and `open_stream` are such calls, too: by what they ensure of the stream that they open, or where they are refused.
#[tactic(auto, using(crate::proofs::ActSteps::opening_works, crate::proofs::ActSteps::keeping_works, crate::proofs::ActSteps::call_works))]
pub fn calls_that_open_streams_say_nothing()
    ensures opens { (c d : Connection) (kind : StreamKind) (id : ℕ) → id ≡ next_own c.ids kind
        → AreOthers id c.streams.entries d.streams.entries → GoesOn [] c d → table_of d ≡ table_of c
        → is_over d ≡ is_over c → IsOfConnection c d }
    ensures refused { (c d : Connection) → Keeps [] c d → IsOfConnection c d }
{}

/// The definitions refuse two instructions for one deed, an acknowledgment or a cancellation of another stream, a count of
/// insertions where a section was read, an instruction where nothing was done, and that the acknowledgment of a section is
/// forgotten that was read with the own table, and whose Required Insert Count is not 0; that a stream is cancelled twice; and
/// one that may not be cancelled. Without a deed nothing is said.
pub fn wrong_instructions_are_refused()
    ensures said_twice { (x : Deed) (a b : Acknowledgment) → AreSaid (x ∷ []) (a ∷ b ∷ []) → ⊥ }
    ensures read_elsewhere { (id k : ℕ) → AreSaid (Reads id ∷ []) (instruction.Section k ∷ []) → k ≡ id }
    ensures left_elsewhere { (id k : ℕ) → AreSaid (Leaves id ∷ []) (instruction.Cancellation k ∷ []) → k ≡ id }
    ensures counted { (id n : ℕ) → AreSaid (Reads id ∷ []) (instruction.Increment n ∷ []) → ⊥ }
    ensures made_up { (a : Acknowledgment) → AreSaid [] (a ∷ []) → ⊥ }
    ensures forgotten { (id : ℕ) (t u : Table) (a : Acknowledges id t u) (k : Decoder) (required : ℕ)
        → a.d.decoder ≡ Some k → a.d.read ≡ Some (just_read required) → 0 < min required (insert_count k.table)
        → u.bytes ≡ t.bytes → ⊥ }
    ensures silent { (t u : Table) → Deeds [] t u → u.bytes ≡ t.bytes }
    ensures cancelled_twice { (id : ℕ) (b c : Book) → WorksBy (Leaves id ∷ Leaves id ∷ []) b c → ⊥ }
    ensures cancelled_again { (id : ℕ) (b c : Book) → may_leave b id ≡ false → WorksBy (Leaves id ∷ []) b c → ⊥ }
{}

/// The decoder stream of RFC 9204, appendix B.2 to B.4: the section of stream 4 is acknowledged, which needs the two entries
/// that there are; the third entry is counted; and stream 8 is left. Where the own capacity is 0, or there is no table, a
/// stream is left without a word.
#[tactic(auto, using(crate::proofs::InstructionLemmas::row_section, crate::proofs::InstructionLemmas::row_count, crate::proofs::InstructionLemmas::row_left, crate::proofs::InstructionLemmas::silent_left, crate::proofs::InstructionLemmas::silent_without))]
pub fn decoder_stream_of_the_standard()
    ensures section { (t u : Table) (a : Acknowledges 4 t u) (k : Decoder) → a.d.decoder ≡ Some k
        → a.d.read ≡ Some (just_read 2) → insert_count k.table ≡ 2 → u.bytes ≡ t.bytes ++ (0x84 ∷ []) }
    ensures count { (t u : Table) (k : Decoder) → SaysBy Counts t u → t.decoder ≡ Some k → insert_count k.table ≡ 3
        → k.known ≡ 2 → u.bytes ≡ t.bytes ++ (0x01 ∷ []) }
    ensures left { (t u : Table) (k : Decoder) → SaysBy (Leaves 8) t u → t.decoder ≡ Some k → k.table.limit ≡ 220
        → u.bytes ≡ t.bytes ++ (0x48 ∷ []) }
    ensures no_capacity { (id : ℕ) (t u : Table) (k : Decoder) → SaysBy (Leaves id) t u → t.decoder ≡ Some k
        → k.table.limit ≡ 0 → u.bytes ≡ t.bytes }
    ensures no_table { (id : ℕ) (t u : Table) → SaysBy (Leaves id) t u → t.decoder ≡ None → u.bytes ≡ t.bytes }
{}
