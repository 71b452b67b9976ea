//! Laws of the definitions that the contracts cite. Each function does nothing: its contract is the
//! law.
ghost use Rattle.std.specs.Prelude.{◌≡◌, ◌⊎◌, ◌<◌, ◌≤◌, ◌^◌, ◌%◌, ◌/◌, ◌++◌, ℕ, List, true, false, Some, None, Ok};
ghost use Rattle.wtp_core.specs.Varint.{shortest};
ghost use Rattle.wtp_wire.specs.Content.{SettingsOf, WebTransportOf};
ghost use Rattle.wtp_wire.specs.Datagram.{datagram_in};
ghost use Rattle.wtp_wire.specs.Front.{Framed, front};
ghost use Rattle.wtp_wire.specs.Header.{WebTransportHeader};
ghost use Rattle.wtp_wire.specs.HeaderFront.{Headed, header_front};
ghost use Rattle.wtp_wire.specs.Settings.{settings_wire};
ghost use Rattle.wtp_wire.specs.Wire.{wire};
ghost use Rattle.wtp_qpack.specs.Field.{Field};
ghost use Rattle.wtp_qpack.specs.FieldLine.{shortest_line};
ghost use Rattle.wtp_qpack.specs.Sensitive.{is_sensitive};
ghost use Rattle.wtp_dynamic.specs.Answer.{HasFields};
ghost use Rattle.wtp_dynamic.specs.EncoderState.{Encoder, Owes, IsOpen};
ghost use Rattle.wtp_dynamic.specs.Plans.{Plan, TableField, planned_line};
ghost use Rattle.wtp_dynamic.specs.Table.{Table, Later, insert_count, table_size};
ghost use Rattle.wtp_dynamic_encoder.specs.declared.proposal.Proposal.{Proposal};
ghost use Rattle.wtp_dynamic_encoder.specs.Choosing.{field_of, Chooses};
ghost use Rattle.wtp_dynamic_encoder.specs.Encoding.{State, needed, sent_of, place_of};
ghost use Rattle.wtp_frames.specs.declared.endpoint.Endpoint.{Endpoint};
ghost use Rattle.wtp_frames.specs.declared.frame_type.FrameType.TheVariants as kind;
ghost use Rattle.wtp_frames.specs.declared.reader.Reader.{Reader};
ghost use Rattle.wtp_frames.specs.Item.{Whole};
ghost use Rattle.wtp_frames.specs.Start.{message_reader, control_reader};
ghost use Rattle.wtp_sending.specs.declared.control.ControlSending.{ControlSending};
ghost use Rattle.wtp_sending.specs.declared.message.Place.TheVariants.{Head};
ghost use Rattle.wtp_sending.specs.declared.message.Sending.{Sending};
ghost use Rattle.wtp_sending.specs.Control.{after_settings, goaway_bytes, after_goaway, IsControlAt, IsControlRead};
ghost use Rattle.wtp_sending.specs.Encoded.{IsEncoded, sent_in, SendsHeadAs, SendsTrailersAs, ReadsSection};
ghost use Rattle.wtp_sending.specs.declared.error.SendError.{SendError};
ghost use Rattle.wtp_sending.specs.Indexing.{indexing_of};
ghost use Rattle.wtp_sending.specs.Message.{SendsHead, SendsTrailers, MayBeHead, RefusesHead, MayBeTrailers, RefusesTail, AreSameReason};
ghost use Rattle.wtp_sending.specs.Sent.{Sent, Leads, LeadsAll, IsAt, IsRead, AreRead, Takes};
ghost use Rattle.wtp_sending.specs.Session.{uni_head, bi_head, datagram_head};

/// What is sent on the stream of a message is read by the other end as it was meant: the bytes that
/// a call wrote give exactly its field section or its bytes of DATA, and no fault, whatever was
/// sent before and whatever follows; and after the end of the message the stream may end. After
/// the HEADERS of an interim response the receiver says what they are, as `wtp_frames` requires.
/// Without those, the bytes of all calls together give all of this, however they are cut.
pub fn sent_messages_are_read()
    ensures start { (e : Endpoint) → IsAt e (Head 0) 0 (message_reader e) }
    ensures calls { (e : Endpoint) (x : Sent) (old new : Sending) (r : Reader)
        → IsAt e old.place old.owed r → Leads x old new → IsRead e x new r }
    ensures all { (e : Endpoint) (xs : List Sent) (old new : Sending) (r : Reader)
        → IsAt e old.place old.owed r → LeadsAll xs old new → AreRead e xs new r }
{}

/// The sections that are sent are never malformed to the receiver of the message: it accepts each,
/// and expects the same content after it.
pub fn sent_sections_are_accepted()
    ensures head { (old new : Sending) (fields : List Field) → SendsHead old fields new
        → Takes old.message fields new.message }
    ensures trailers { (old new : Sending) (fields : List Field) → SendsTrailers old fields new
        → Takes old.message fields new.message }
{}

/// A section that may not be sent has one reason, whichever broken rule it names, and one that may be sent
/// has none: a reason is returned exactly if it is the first that holds, and those of memory and of space
/// only if none does.
pub fn sections_are_refused_for_one_reason()
    ensures head { (s : Sending) (fields : List Field) (e f : SendError)
        → RefusesHead s fields e → RefusesHead s fields f → AreSameReason e f }
    ensures sent_head { (s : Sending) (fields : List Field) (e : SendError)
        → MayBeHead s fields → RefusesHead s fields e → ⊥ }
    ensures trailers { (s : Sending) (fields : List Field) (e f : SendError)
        → RefusesTail s fields e → RefusesTail s fields f → AreSameReason e f }
    ensures sent_trailers { (s : Sending) (fields : List Field) (e : SendError)
        → MayBeTrailers s fields → RefusesTail s fields e → ⊥ }
{}

/// A field is protected alike with an encoder of the dynamic table and without one: a line that refers
/// to no entry of that table is the same bytes by both calls, the bit N too; and a sensitive field never
/// refers to an entry of that table that has its value.
pub fn lines_are_alike()
    ensures line { (table : Table) (low bound base : ℕ) (proposal : Proposal) (plan : Plan)
        → proposal.indexing ≡ indexing_of (field_of proposal)
        → Chooses table low bound proposal plan → place_of plan ≡ None
        → planned_line base plan ≡ shortest_line (field_of proposal) }
    ensures sensitive { (table : Table) (low bound place : ℕ) (proposal : Proposal)
        → proposal.indexing ≡ indexing_of (field_of proposal)
        → is_sensitive (field_of proposal) ≡ true
        → ¬ Chooses table low bound proposal (TableField place) }
{}

/// HEADERS are read by the other end as the section that was sent, whatever the section is, as one that
/// refers to the dynamic table; and the fields that it was made of are not malformed to the receiver.
pub fn sent_encoded_sections_are_read()
    ensures head { (e : Endpoint) (section : List ℕ) (fields : List Field) (old new : Sending)
        (r : Reader) → IsAt e old.place old.owed r → SendsHeadAs section old fields new
        → ReadsSection e section new r }
    ensures trailers { (e : Endpoint) (section : List ℕ) (fields : List Field) (old new : Sending)
        (r : Reader) → IsAt e old.place old.owed r → SendsTrailersAs section old fields new
        → ReadsSection e section new r }
    ensures accepted_head { (section : List ℕ) (old new : Sending) (fields : List Field)
        → SendsHeadAs section old fields new → Takes old.message fields new.message }
    ensures accepted_trailers { (section : List ℕ) (old new : Sending) (fields : List Field)
        → SendsTrailersAs section old fields new → Takes old.message fields new.message }
{}

/// A section that was written for fields reads as exactly these, at each decoder of the encoder's stream
/// that has received what the encoder knows of, and what the section needs, as long as it is not
/// acknowledged, however the encoder went on; whatever the rule says of how fields are indexed.
pub fn encoded_sections_have_their_fields()
    ensures { (stream : ℕ) (fields : List Field) (old new : State) (before after section : List ℕ)
        (encoded : IsEncoded stream fields old new before after section) (now : Encoder) (decoder : Table)
        → let sent = sent_in stream fields old new before after section encoded in
        Owes now → (needed sent.plans ≡ 0) ⊎ IsOpen (sent_of stream sent.plans sent.lowest) now.sections
        → Later new.table now.table → Later decoder now.table
        → table_size now.table.live ≤ now.table.limit → now.known ≤ insert_count decoder
        → needed sent.plans ≤ insert_count decoder
        → insert_count new.table < 2 ^ 62 → decoder.limit < 2 ^ 62
        → HasFields decoder section fields }
{}

/// What is sent on the control stream after its type is read by the other end as it was meant,
/// whatever was sent before and whatever follows.
pub fn sent_control_frames_are_read()
    ensures start { (e : Endpoint) → IsControlAt e false None (control_reader e) }
    ensures settings { (e : Endpoint) (old new : ControlSending) (settings : List (ℕ × ℕ))
        (r : Reader) → IsControlAt e old.settled old.goaway r → after_settings old settings ≡ Ok new
        → IsControlRead e (wire (SettingsOf (settings_wire settings)))
        (Whole kind.Settings (settings_wire settings)) new r }
    ensures goaway { (e : Endpoint) (old new : ControlSending) (id : ℕ) (r : Reader)
        → e.side ≡ old.to → id < 2 ^ 62 → IsControlAt e old.settled old.goaway r
        → after_goaway old id ≡ Ok new
        → IsControlRead e (goaway_bytes id) (Whole kind.GoAway (shortest id)) new r }
{}

/// The first bytes of a session's streams and datagrams name the session, whatever follows.
pub fn sent_sessions_are_named()
    ensures unidirectional { (id : ℕ) (more : List ℕ) → id < 2 ^ 62 → id % 4 ≡ 0
        → header_front (uni_head id ++ more) ≡ Headed (WebTransportHeader id) more }
    ensures bidirectional { (id : ℕ) (more : List ℕ) → id < 2 ^ 62 → id % 4 ≡ 0
        → front (bi_head id ++ more) ≡ Framed (WebTransportOf id) more }
    ensures datagram { (id : ℕ) (payload : List ℕ) → id < 2 ^ 62
        → datagram_in (datagram_head id ++ payload) ≡ Some (id / 4, payload) }
{}
