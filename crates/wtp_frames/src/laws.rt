//! Laws of the definitions that the contracts cite. Each function does nothing: its contract is the
//! law.
ghost use Rattle.std.specs.Prelude.{◌≡◌, ℕ, ◌+◌, ◌%◌, ◌<◌, ◌≤◌, Bool, true, false, List, [], ◌∷◌, ◌++◌, map, length, Option, Some, None, Ok};
ghost use Rattle.wtp_frames.specs.declared.endpoint.Endpoint.{Endpoint};
ghost use Rattle.wtp_frames.specs.declared.reader.Reader.{Reader};
ghost use Rattle.wtp_core.specs.declared.error.scope.ErrorScope.TheVariants.{Stream, Connection};
ghost use Rattle.wtp_core.specs.Varint.{Encodes};
ghost use Rattle.wtp_frames.specs.declared.endpoint.Side.{Side};
ghost use Rattle.wtp_frames.specs.declared.endpoint.Side.TheVariants.{Client, Server};
ghost use Rattle.wtp_frames.specs.declared.frame_type.FrameType.TheVariants as kind;
ghost use Rattle.wtp_frames.specs.declared.reader.Place.TheVariants.{BeforeHeaders, Body, AfterTrailers, Tunnel, BeforeSettings, AfterSettings};
ghost use Rattle.wtp_frames.specs.Item.{Whole, Byte};
ghost use Rattle.wtp_frames.specs.Grammar.{Frame, written, IsFrame, IsUnknown, Message, message_bytes, message_items, ValidMessage, Stage, NoHeaders, InContent, HasTrailers, stage, count, HasRoom, count_data, Ids, ids_bytes, ids_items, last_goaway, last_push, Interim, ValidInterim, ValidInterims};
ghost use Rattle.wtp_frames.specs.Codes.{Reports, InMessage, IsSettled, AfterIds, OnControl, TooLong, NoNumber, Fails};
ghost use Rattle.wtp_frames.specs.GoAway.{IsPrevious};
ghost use Rattle.wtp_frames.specs.Run.{run, preceded, next_run, failed, stays};
ghost use Rattle.wtp_frames.specs.First.{first, with_more};
ghost use Rattle.wtp_frames.specs.Tunnel.{after_connect, InTunnel};
ghost use Rattle.wtp_frames.specs.Interim.{after_interim, GivesSection, ReadsInterims, IsAwaiting, IsNoInterim};
ghost use Rattle.wtp_frames.specs.Fault.{code_of, scope_of};
ghost use Rattle.wtp_frames.specs.declared.fault.Fault.TheVariants as fault;
ghost use Rattle.wtp_frames.specs.Reading.{StepIs, Waits, by_end, ending_of};
ghost use Rattle.wtp_frames.specs.declared.frame_type.FrameType.{FrameType};
ghost use Rattle.wtp_frames.specs.declared.reader.Step.TheVariants as step;
ghost use Rattle.wtp_frames.specs.Pieces.{Event, Leads, bytes_in, given_in, Table, IsStill, Arrivals, taken, items_due, items_on, bytes_of};
ghost use Rattle.wtp_frames.specs.Order.{IsMessage, IsControl};
ghost use Rattle.wtp_frames.specs.Start.{message_reader, awaiting, control_reader, between, place_of};

/// A run goes by the head of the first frame, or by the payload that is still to come.
pub fn run_goes_by_head()
    ensures { (r : Reader) (bytes : List ℕ) → run r bytes ≡ next_run (λ s rest. run s rest) r bytes }
{}

/// A stream may be cut anywhere: the items of the first part come first, and then those of what it
/// leaves and the second part.
pub fn cuts_make_no_difference()
    ensures { (r : Reader) (a b : List ℕ) → run r (a ++ b)
        ≡ preceded (run r a).items (run (run r a).reader ((run r a).left ++ b)) }
{}

/// What a call returns first does not depend on the bytes that follow, but for the length of a piece of
/// DATA: the frame and the reader after it are the same, and so are the bytes consumed, of which a fault
/// has all.
pub fn first_items_may_be_cut()
    ensures { (r : Reader) (a b : List ℕ) → first r (a ++ b) ≡ with_more (first r a) b }
{}

/// Whatever pieces came and whatever calls were made, the items that the calls gave are the first
/// of all bytes, and those of what is left and of what follows come after them. Once a call needs
/// more bytes, they are all the items of the bytes that came.
pub fn calls_give_the_items()
    ensures so_far { (events : List Event) (old new : Reader) (rest more : List ℕ)
        → Leads events old [] new rest
        → run old (bytes_in events ++ more) ≡ preceded (given_in events []) (run new (rest ++ more)) }
    ensures all { (events : List Event) (old new : Reader) (rest : List ℕ)
        → Leads events old [] new rest → Waits new rest
        → run old (bytes_in events) ≡ record { items = given_in events []; reader = new; left = rest } }
{}

/// The end of a stream means what it means after all of its bytes, joined.
pub fn ends_are_those_of_the_bytes()
    ensures { (events : List Event) (old new : Reader) (rest : List ℕ)
        → Leads events old [] new rest → Waits new rest
        → ending_of (run old (bytes_in events))
        ≡ by_end new.endpoint.side new.place (new.remaining + length rest) }
{}

/// However the pieces of many streams are interleaved, the items of each stream are those of its
/// bytes, joined.
pub fn streams_are_independent()
    ensures { (n : ℕ) (arrivals : Arrivals) (t : Table) → IsStill (t n)
        → items_on n (items_due t arrivals) ≡ (taken (t n) (bytes_of n arrivals)).items }
{}

/// Whatever the bytes are, a message is HEADERS, DATA and trailers, and a control stream is
/// SETTINGS once and then IDs, of which those of GOAWAY never rise. A fault comes once, and nothing
/// after it.
pub fn items_are_in_order()
    ensures message { (e : Endpoint) (k : ℕ) (bytes : List ℕ)
        → IsMessage (run (awaiting e k) bytes).items }
    ensures control { (e : Endpoint) (bytes : List ℕ)
        → IsControl e.side (run (control_reader e) bytes).items }
{}

/// Every message that the grammar has is read, whatever encodings its numbers have, with unknown
/// frames between, and after any interim responses: it gives exactly its sections and its bytes of
/// DATA, and no fault, and then what follows is read from there on.
pub fn valid_messages_are_read()
    ensures start { (e : Endpoint) (k : ℕ) (m : Message) (more : List ℕ) → ValidMessage e.webtransport 0 m
        → (streamed : Bool) × (run (awaiting e k) (message_bytes m ++ more)
        ≡ preceded (message_items e.max_section m)
        (run (between e k (place_of (stage m)) streamed (count 0 m)) more)) }
    ensures whole { (e : Endpoint) (k : ℕ) (m : Message) → ValidMessage e.webtransport 0 m
        → (streamed : Bool) × (run (awaiting e k) (message_bytes m) ≡ record {
          items = message_items e.max_section m;
          reader = between e k (place_of (stage m)) streamed (count 0 m);
          left = [];
        }) }
{}

/// Up to 64 interim responses that the grammar has are read before a response, if the caller says of
/// each what it is. One more is an error, and nothing is read after it.
pub fn interim_responses_are_read()
    ensures read { (e : Endpoint) (is : List Interim) → e.side ≡ Client
        → ValidInterims e.webtransport e.max_section is → length is ≤ 64
        → ReadsInterims (message_reader e) is (awaiting e (length is)) }
    ensures bound { (e : Endpoint) (i : Interim) → e.side ≡ Client
        → ValidInterim e.webtransport e.max_section 0 i
        → (mid : Reader) × GivesSection (awaiting e 64) i mid
        × (after_interim mid ≡ (failed mid fault.TooManyInterim, Some fault.TooManyInterim)) }
    ensures code { code_of fault.TooManyInterim ≡ 0x0107 }
    ensures scope { scope_of fault.TooManyInterim ≡ Stream }
    ensures last { (r : Reader) (bytes : List ℕ) → run (failed r fault.TooManyInterim) bytes
        ≡ stays (failed r fault.TooManyInterim) [] }
{}

/// Interim responses may be cut anywhere: a call that needs more bytes changes nothing about them,
/// and the call that returns HEADERS leads to where the caller may say what they are.
pub fn interim_responses_may_be_cut()
    ensures start { (e : Endpoint) (k : ℕ) → IsAwaiting e k (awaiting e k) }
    ensures more { (e : Endpoint) (k n : ℕ) (bytes : List ℕ) (old new : Reader)
        → IsAwaiting e k old → StepIs (step.More n) old bytes new → IsAwaiting e k new }
    ensures headers { (e : Endpoint) (k a b : ℕ) (bytes : List ℕ) (t : FrameType)
        (old new : Reader) → IsAwaiting e k old → StepIs (step.Frame t a b) old bytes new
        → e.side ≡ Client → k < 64 → after_interim new ≡ (awaiting e (k + 1), None) }
{}

/// No other frame than the HEADERS that were given last is an interim response, and a request is
/// none.
pub fn other_frames_are_no_interim_responses()
    ensures none { (e : Endpoint) (k : ℕ) (s : Bool) (n : ℕ)
        → IsNoInterim (between e k BeforeHeaders s n) }
    ensures content { (e : Endpoint) (k n : ℕ) → IsNoInterim (between e k Body true n) }
    ensures unknown { (e : Endpoint) (k : ℕ) (s : Bool) (n : ℕ)
        → IsNoInterim (between e k Body s (n + 1)) }
    ensures trailers { (e : Endpoint) (k : ℕ) (s : Bool) (n : ℕ)
        → IsNoInterim (between e k AfterTrailers s n) }
    ensures control { (e : Endpoint) (k : ℕ) (goaway push : Option ℕ) (s : Bool) (n : ℕ)
        → IsNoInterim (between e k (AfterSettings goaway push) s n) }
    ensures request { (r : Reader) → r.endpoint.side ≡ Server → IsNoInterim r }
{}

/// After a CONNECT request that was answered with a 2xx status DATA is read, and unknown frames are
/// skipped. Any other frame is reported at its head.
pub fn tunnels_have_data_alone()
    ensures start { (e : Endpoint) (k n : ℕ) (s : Bool)
        → after_connect (between e k Body s n) ≡ between e k Tunnel s n }
    ensures data_frame { (e : Endpoint) (k n : ℕ) (s : Bool) (f : Frame) (more : List ℕ)
        → IsFrame 0x00 f → HasRoom n f.payload
        → run (between e k Tunnel s n) (written f ++ more)
        ≡ preceded (map Byte f.payload) (run (between e k Tunnel true (count_data n f.payload)) more) }
    ensures unknown { (e : Endpoint) (k n id : ℕ) (s : Bool) (f : Frame) (more : List ℕ)
        → IsUnknown e.webtransport id → IsFrame id f → n < 1024
        → run (between e k Tunnel s n) (written f ++ more)
        ≡ preceded [] (run (between e k Tunnel false (n + 1)) more) }
    ensures headers { (e : Endpoint) → InTunnel e 0x01 0x0105 Connection }
    ensures cancel_push { (e : Endpoint) → InTunnel e 0x03 0x0105 Connection }
    ensures settings { (e : Endpoint) → InTunnel e 0x04 0x0105 Connection }
    ensures push_promise { (e : Endpoint) → InTunnel e 0x05 0x0105 Connection }
    ensures goaway { (e : Endpoint) → InTunnel e 0x07 0x0105 Connection }
    ensures max_push_id { (e : Endpoint) → InTunnel e 0x0d 0x0105 Connection }
    ensures priority { (e : Endpoint) → InTunnel e 0x02 0x0105 Connection }
    ensures ping { (e : Endpoint) → InTunnel e 0x06 0x0105 Connection }
    ensures window_update { (e : Endpoint) → InTunnel e 0x08 0x0105 Connection }
    ensures continuation { (e : Endpoint) → InTunnel e 0x09 0x0105 Connection }
    ensures webtransport { (e : Endpoint) → e.webtransport ≡ true → InTunnel e 0x41 0x0106 Connection }
    ensures end { (side : Side) (n : ℕ) → 0 < n → Fails (by_end side Tunnel n) 0x0106 Connection }
    ensures complete { (side : Side) → by_end side Tunnel 0 ≡ Ok tt }
{}

/// Every control stream that the grammar has is read, in the same way.
pub fn valid_control_streams_are_read()
    ensures { (e : Endpoint) (f : Frame) (ids : Ids) (more : List ℕ) → IsSettled e f ids
        → (streamed : Bool) × (idle : ℕ)
        × (run (control_reader e) (written f ++ (ids_bytes ids ++ more))
        ≡ preceded (Whole kind.Settings f.payload ∷ ids_items ids)
        (run (between e 0 (AfterSettings (last_goaway None ids) (last_push None ids)) streamed idle) more)) }
{}

/// The first frame of a message's stream that the grammar does not have is reported with its code,
/// after everything before it.
pub fn invalid_messages_are_reported()
    ensures data_before_headers { (e : Endpoint) → InMessage e NoHeaders 0x00 0x0105 Connection }
    ensures data_after_trailers { (e : Endpoint) → InMessage e HasTrailers 0x00 0x0105 Connection }
    ensures headers_after_trailers { (e : Endpoint)
        → InMessage e HasTrailers 0x01 0x0105 Connection }
    ensures cancel_push { (e : Endpoint) (s : Stage) → InMessage e s 0x03 0x0105 Connection }
    ensures settings { (e : Endpoint) (s : Stage) → InMessage e s 0x04 0x0105 Connection }
    ensures goaway { (e : Endpoint) (s : Stage) → InMessage e s 0x07 0x0105 Connection }
    ensures max_push_id { (e : Endpoint) (s : Stage) → InMessage e s 0x0d 0x0105 Connection }
    ensures priority { (e : Endpoint) (s : Stage) → InMessage e s 0x02 0x0105 Connection }
    ensures ping { (e : Endpoint) (s : Stage) → InMessage e s 0x06 0x0105 Connection }
    ensures window_update { (e : Endpoint) (s : Stage) → InMessage e s 0x08 0x0105 Connection }
    ensures continuation { (e : Endpoint) (s : Stage) → InMessage e s 0x09 0x0105 Connection }
    ensures promise_to_a_server { (e : Endpoint) (s : Stage) → e.side ≡ Server
        → InMessage e s 0x05 0x0105 Connection }
    ensures promise_to_a_client { (e : Endpoint) (s : Stage) → e.side ≡ Client
        → InMessage e s 0x05 0x0108 Connection }
    ensures webtransport { (e : Endpoint) (s : Stage) → e.webtransport ≡ true
        → InMessage e s 0x41 0x0106 Connection }
    ensures too_many_unknown { (e : Endpoint) (k : ℕ) (m : Message) (id n : ℕ) (t u more : List ℕ)
        → ValidMessage e.webtransport 0 m → 1024 ≤ count 0 m → IsUnknown e.webtransport id
        → Encodes id t → Encodes n u
        → Reports (run (awaiting e k) (message_bytes m ++ (t ++ (u ++ more))))
        (message_items e.max_section m) 0x0107 Connection }
    ensures too_many_empty { (e : Endpoint) (k : ℕ) (m : Message) (t u more : List ℕ)
        → ValidMessage e.webtransport 0 m → stage m ≡ InContent → 1024 ≤ count 0 m
        → Encodes 0x00 t → Encodes 0 u
        → Reports (run (awaiting e k) (message_bytes m ++ (t ++ (u ++ more))))
        (message_items e.max_section m) 0x0107 Connection }
{}

/// The first frame of a control stream that the grammar does not have is reported with its code,
/// after everything before it.
pub fn invalid_control_streams_are_reported()
    ensures first { (e : Endpoint) (id n : ℕ) (t u more : List ℕ) → (id ≡ 0x04 → ⊥)
        → Encodes id t → Encodes n u
        → Reports (run (control_reader e) (t ++ (u ++ more))) [] 0x010a Connection }
    ensures long_settings { (e : Endpoint) (n : ℕ) (t u more : List ℕ) → 4096 < n
        → Encodes 0x04 t → Encodes n u
        → Reports (run (control_reader e) (t ++ (u ++ more))) [] 0x0107 Connection }
    ensures data_frame { (e : Endpoint) → OnControl e 0x00 0x0105 Connection }
    ensures headers { (e : Endpoint) → OnControl e 0x01 0x0105 Connection }
    ensures settings { (e : Endpoint) → OnControl e 0x04 0x0105 Connection }
    ensures push_promise { (e : Endpoint) → OnControl e 0x05 0x0105 Connection }
    ensures priority { (e : Endpoint) → OnControl e 0x02 0x0105 Connection }
    ensures ping { (e : Endpoint) → OnControl e 0x06 0x0105 Connection }
    ensures window_update { (e : Endpoint) → OnControl e 0x08 0x0105 Connection }
    ensures continuation { (e : Endpoint) → OnControl e 0x09 0x0105 Connection }
    ensures webtransport { (e : Endpoint) → e.webtransport ≡ true
        → OnControl e 0x41 0x0106 Connection }
    ensures max_push_id { (e : Endpoint) → e.side ≡ Client → OnControl e 0x0d 0x0105 Connection }
    ensures long_cancel_push { (e : Endpoint) → TooLong e 0x03 0x0106 Connection }
    ensures long_goaway { (e : Endpoint) → TooLong e 0x07 0x0106 Connection }
    ensures long_max_push_id { (e : Endpoint) → e.side ≡ Server → TooLong e 0x0d 0x0106 Connection }
    ensures short_cancel_push { (e : Endpoint) → NoNumber e 0x03 0x0106 Connection }
    ensures short_goaway { (e : Endpoint) → NoNumber e 0x07 0x0106 Connection }
    ensures short_max_push_id { (e : Endpoint) → e.side ≡ Server
        → NoNumber e 0x0d 0x0106 Connection }
{}

/// IDs that may not come are reported with their code.
pub fn invalid_ids_are_reported()
    ensures cancelled { (e : Endpoint) (settings f : Frame) (ids : Ids) (n : ℕ)
        → IsSettled e settings ids → IsFrame 0x03 f → Encodes n f.payload
        → AfterIds e settings ids (written f) 0x0108 Connection }
    ensures goaway_of_no_request { (e : Endpoint) (settings f : Frame) (ids : Ids) (n : ℕ)
        → IsSettled e settings ids → IsFrame 0x07 f → Encodes n f.payload → e.side ≡ Client
        → (n % 4 ≡ 0 → ⊥) → AfterIds e settings ids (written f) 0x0108 Connection }
    ensures goaway_rises { (e : Endpoint) (settings f : Frame) (ids : Ids) (n last : ℕ)
        → IsSettled e settings ids → IsFrame 0x07 f → Encodes n f.payload
        → last_goaway None ids ≡ Some last → last < n
        → AfterIds e settings ids (written f) 0x0108 Connection }
    ensures max_push_id_falls { (e : Endpoint) (settings f : Frame) (ids : Ids) (n last : ℕ)
        → IsSettled e settings ids → IsFrame 0x0d f → Encodes n f.payload → e.side ≡ Server
        → last_push None ids ≡ Some last → n < last
        → AfterIds e settings ids (written f) 0x0108 Connection }
{}

/// A GOAWAY is given exactly if its ID is not greater than that of any previous one, and, where a client
/// reads it, is that of a bidirectional stream that a client opened; any other one is H3_ID_ERROR, which
/// ends the connection (RFC 9114, sections 5.2 and 7.2.6; RFC 9000, section 2.1).
pub fn goaways_never_rise()
    ensures given { (e : Endpoint) (settings f : Frame) (ids : Ids) (n : ℕ) (more : List ℕ)
        → IsSettled e settings ids → IsFrame 0x07 f → Encodes n f.payload
        → (e.side ≡ Client → n % 4 ≡ 0) → ((m : ℕ) → IsPrevious m ids → n ≤ m)
        → (next : Reader)
        × (run (control_reader e) (written settings ++ (ids_bytes ids ++ (written f ++ more)))
        ≡ preceded (Whole kind.Settings settings.payload
        ∷ (ids_items ids ++ (Whole kind.GoAway f.payload ∷ []))) (run next more)) }
    ensures greater { (e : Endpoint) (settings f : Frame) (ids : Ids) (n m : ℕ)
        → IsSettled e settings ids → IsFrame 0x07 f → Encodes n f.payload
        → IsPrevious m ids → m < n → AfterIds e settings ids (written f) 0x0108 Connection }
    ensures of_no_request { (e : Endpoint) (settings f : Frame) (ids : Ids) (n : ℕ)
        → IsSettled e settings ids → IsFrame 0x07 f → Encodes n f.payload
        → e.side ≡ Client → (n % 4 ≡ 0 → ⊥)
        → AfterIds e settings ids (written f) 0x0108 Connection }
{}

/// What the end of a stream means, after any valid frames and with so many bytes of the next one.
pub fn ends_have_codes()
    ensures critical { (side : Side) (goaway push : Option ℕ) (n : ℕ)
        → Fails (by_end side (AfterSettings goaway push) n) 0x0104 Connection }
    ensures critical_before_settings { (side : Side) (n : ℕ)
        → Fails (by_end side BeforeSettings n) 0x0104 Connection }
    ensures cut { (side : Side) (s : Stage) (n : ℕ) → 0 < n
        → Fails (by_end side (place_of s) n) 0x0106 Connection }
    ensures no_request { Fails (by_end Server BeforeHeaders 0) 0x010d Stream }
    ensures no_response { Fails (by_end Client BeforeHeaders 0) 0x010e Stream }
    ensures complete { (side : Side) → by_end side Body 0 ≡ Ok tt }
    ensures complete_with_trailers { (side : Side) → by_end side AfterTrailers 0 ≡ Ok tt }
{}
