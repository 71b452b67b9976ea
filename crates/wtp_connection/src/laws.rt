//! Laws of the definitions that the contracts cite. Each function does nothing: its contract is the
//! law.
ghost use Rattle.std.specs.Prelude.{◌≡◌, ℕ, ◌+◌, ◌/◌, ◌%◌, ◌^◌, ◌<◌, ◌≤◌, Bool, true, false, List, [], ◌∷◌, ◌++◌, length, take, Some, None, Ok, Err};
ghost use Rattle.wtp_core.specs.Varint.{Encodes};
ghost use Rattle.wtp_frames.specs.declared.endpoint.Endpoint.{Endpoint};
ghost use Rattle.wtp_frames.specs.declared.fault.Fault.TheVariants as stream;
ghost use Rattle.wtp_frames.specs.declared.reader.Place.TheVariants.{AfterSettings};
ghost use Rattle.wtp_frames.specs.declared.endpoint.Side.TheVariants.{Client, Server};
ghost use Rattle.wtp_frames.specs.Grammar.{Frame, written, IsFrame, Interim, ValidInterim};
ghost use Rattle.wtp_frames.specs.Start.{between, awaiting, message_reader};
ghost use Rattle.wtp_core.specs.declared.error.scope.ErrorScope.TheVariants as scope;
ghost use Rattle.wtp_connection.specs.Budget.{Fate, budget_of, is_exceeded, after_all, answers_in, resets_in};
ghost use Rattle.wtp_connection.specs.declared.budget.RequestBudget.{RequestBudget};
ghost use Rattle.wtp_connection.specs.declared.connection.Connection.{Connection};
ghost use Rattle.wtp_connection.specs.declared.connection.Known.TheVariants as known;
ghost use Rattle.wtp_connection.specs.Fault.{code_of, scope_of};
ghost use Rattle.wtp_qpack.specs.Integer.{IsInt};
ghost use Rattle.wtp_wire.specs.Front.{EncodesPair};
ghost use Rattle.wtp_wire.specs.SettingId.{IsReserved};
ghost use Rattle.wtp_wire.specs.Settings.{ArePairs, IsCutSetting};
ghost use Rattle.wtp_connection.specs.declared.fault.Fault.{Fault};
ghost use Rattle.wtp_connection.specs.declared.fault.Fault.TheVariants as fault;
ghost use Rattle.wtp_connection.specs.declared.settings.PeerSettings.{PeerSettings};
ghost use Rattle.wtp_connection.specs.Resumption.{KeepsCapacity, KeepsLimits, after_resumption};
ghost use Rattle.wtp_connection.specs.declared.stream.Purpose.TheVariants as «for»;
ghost use Rattle.wtp_connection.specs.declared.stream.Stream.TheVariants.{Uni, Bi, Frames, Joining, Ignored, Over};
ghost use Rattle.wtp_connection.specs.Streams.{with_control, configured, received_settings, closed_by, breaks, Opened, Configured, Broke, Ended, followed, all_given, run_stream, ended, refuses, resets, FindsInterim, accepted_all, known_alone, over_if};
ghost use Rattle.wtp_connection.specs.declared.connection.Found.{Found};
ghost use Rattle.wtp_connection.specs.declared.stream.Stream.{Stream};
ghost use Rattle.wtp_connection.specs.Receiving.{AreReturned};
ghost use Rattle.wtp_connection.specs.First.{first_seen, with_more};
ghost use Rattle.wtp_connection.specs.declared.instructions.DecoderPlace.TheVariants.{Between};
ghost use Rattle.wtp_connection.specs.Instructions.{BeginsCancellation, AreCancellations, after_bytes};
ghost use Rattle.wtp_connection.specs.Requests.{has_begun, IsNotFarBehind, beginning_of, beginning_at, begun_by};
ghost use Rattle.wtp_connection.specs.declared.requests.Beginning.TheVariants as beginning;
ghost use Rattle.wtp_connection.specs.Settings.{AreValid, values_of, is_refused, with_defaults, settings_in};

/// Valid settings are read, in whatever order they are and whatever encodings they have: each field
/// has the value beside its identifier, or its default.
pub fn valid_settings_are_read()
    ensures { (ps : List (ℕ × ℕ)) (payload : List ℕ) → ArePairs ps payload → AreValid ps
        → settings_in payload ≡ Ok (with_defaults (values_of ps)) }
{}

/// The first setting that is not valid is reported after any valid ones, whatever follows.
pub fn invalid_settings_are_reported()
    ensures truncated { (ps : List (ℕ × ℕ)) (front rest : List ℕ) → ArePairs ps front → AreValid ps
        → IsCutSetting rest → settings_in (front ++ rest) ≡ Err (fault.Stream stream.Frame) }
    ensures of_http2 { (ps : List (ℕ × ℕ)) (front s more : List ℕ) (id value : ℕ)
        → ArePairs ps front → AreValid ps → EncodesPair id value s → IsReserved id
        → settings_in (front ++ (s ++ more)) ≡ Err fault.Settings }
    ensures refused { (ps : List (ℕ × ℕ)) (front s more : List ℕ) (id value : ℕ)
        → ArePairs ps front → AreValid ps → EncodesPair id value s
        → is_refused ps id value ≡ true → settings_in (front ++ (s ++ more)) ≡ Err fault.Settings }
{}

/// A control stream that begins with SETTINGS gives what they define, whatever came before on other
/// streams, and the connection has it from then on. If they are not valid the stream gives their error,
/// and nothing after it.
pub fn settings_are_found()
    ensures values { (c : Connection) (t more : List ℕ) (f : Frame) (v : PeerSettings)
        → c.over ≡ false → c.control ≡ false
        → Encodes 0x00 t → IsFrame 0x04 f → length f.payload ≤ 4096
        → received_settings c f.payload ≡ Ok v
        → (streamed : Bool) × (idle : ℕ)
        × (run_stream c Uni (t ++ (written f ++ more))
        ≡ followed (Opened «for».Control ∷ Configured v f.payload ∷ [])
        (run_stream (configured (with_control c) v)
        (Frames (between c.endpoint 0 (AfterSettings None None) streamed idle) true) more)) }
    ensures fault { (c : Connection) (t more : List ℕ) (f : Frame) (x : Fault)
        → c.over ≡ false → c.control ≡ false
        → Encodes 0x00 t → IsFrame 0x04 f → length f.payload ≤ 4096
        → received_settings c f.payload ≡ Err x
        → run_stream c Uni (t ++ (written f ++ more))
        ≡ all_given (closed_by (with_control c) x) Over (Opened «for».Control ∷ Broke x ∷ []) }
{}

/// SETTINGS of a server that accepted 0-RTT are taken exactly if they keep what is remembered of the
/// resumed session. Another capacity of the dynamic table than a remembered one that is not 0 is
/// QPACK_DECODER_STREAM_ERROR; anything else that is less is H3_SETTINGS_ERROR.
pub fn remembered_settings_are_kept()
    ensures kept { (old new : PeerSettings) → KeepsCapacity old new → KeepsLimits old new
        → after_resumption old new ≡ Ok new }
    ensures capacity { (old new : PeerSettings) → (KeepsCapacity old new → ⊥)
        → after_resumption old new ≡ Err fault.Capacity }
    ensures limits { (old new : PeerSettings) → KeepsCapacity old new → (KeepsLimits old new → ⊥)
        → after_resumption old new ≡ Err fault.Settings }
    ensures capacity_code { code_of fault.Capacity ≡ 0x0202 }
    ensures settings_code { code_of fault.Settings ≡ 0x0109 }
    ensures capacity_scope { scope_of fault.Capacity ≡ scope.Connection }
    ensures settings_scope { scope_of fault.Settings ≡ scope.Connection }
{}

/// What a stream is for is found by its first number, whatever encoding it has, and of a stream of a
/// session by the ID after it (RFC 9114, sections 6.1 and 6.2; draft-ietf-webtrans-http3-02, sections
/// 4.1 and 4.2).
pub fn purposes_are_found()
    ensures session { (c : Connection) (t u more : List ℕ) (s : ℕ)
        → c.over ≡ false → c.endpoint.webtransport ≡ true
        → Encodes 0x54 t → Encodes s u → s % 4 ≡ 0
        → run_stream c Uni (t ++ (u ++ more))
        ≡ followed (Opened («for».Session s) ∷ []) (run_stream c (Joining s) more) }
    ensures bidirectional { (c : Connection) (t u more : List ℕ) (s : ℕ)
        → c.over ≡ false → c.endpoint.webtransport ≡ true
        → Encodes 0x41 t → Encodes s u → s % 4 ≡ 0
        → run_stream c Bi (t ++ (u ++ more))
        ≡ followed (Opened («for».Session s) ∷ []) (run_stream c (Joining s) more) }
    ensures request { (c : Connection) (t more : List ℕ) (n : ℕ)
        → c.over ≡ false → c.endpoint.side ≡ Server → Encodes n t
        → (n ≡ 0x41 → c.endpoint.webtransport ≡ false)
        → run_stream c Bi (t ++ more)
        ≡ followed (Opened «for».Message ∷ [])
        (run_stream c (Frames (message_reader c.endpoint) false) (t ++ more)) }
    ensures unknown { (c : Connection) (t more : List ℕ) (n : ℕ)
        → c.over ≡ false → Encodes n t → 3 < n
        → (n ≡ 0x54 → c.endpoint.webtransport ≡ false)
        → run_stream c Uni (t ++ more)
        ≡ followed (Opened «for».Ignored ∷ []) (run_stream c Ignored more) }
{}

/// Streams that the peer may not open end the connection: with H3_ID_ERROR those with an invalid session
/// ID, and a push to a client; with H3_STREAM_CREATION_ERROR a push to a server, a second control stream
/// or stream of QPACK, and a bidirectional stream of a server that is none of a session. Where
/// WebTransport is not enabled such a stream is one at its first byte (`first_byte`), at its end (`end`)
/// or at its reset (`reset`), however its bytes are cut (RFC 9114, section 6.1). Where it is enabled, one
/// that ends without a byte is no error (`empty`).
pub fn forbidden_streams_are_reported()
    ensures session { (c : Connection) (t u more : List ℕ) (s : ℕ)
        → c.over ≡ false → c.endpoint.webtransport ≡ true
        → Encodes 0x54 t → Encodes s u → (s % 4 ≡ 0 → ⊥)
        → run_stream c Uni (t ++ (u ++ more)) ≡ breaks c (fault.Stream stream.Id) }
    ensures bidirectional { (c : Connection) (t u more : List ℕ) (s : ℕ)
        → c.over ≡ false → c.endpoint.webtransport ≡ true
        → Encodes 0x41 t → Encodes s u → (s % 4 ≡ 0 → ⊥)
        → run_stream c Bi (t ++ (u ++ more)) ≡ breaks c (fault.Stream stream.Id) }
    ensures push_to_client { (c : Connection) (t more : List ℕ)
        → c.over ≡ false → c.endpoint.side ≡ Client → Encodes 0x01 t
        → run_stream c Uni (t ++ more) ≡ breaks c (fault.Stream stream.Id) }
    ensures push_to_server { (c : Connection) (t more : List ℕ)
        → c.over ≡ false → c.endpoint.side ≡ Server → Encodes 0x01 t
        → run_stream c Uni (t ++ more) ≡ breaks c (fault.Stream stream.StreamCreation) }
    ensures control { (c : Connection) (t more : List ℕ)
        → c.over ≡ false → c.control ≡ true → Encodes 0x00 t
        → run_stream c Uni (t ++ more) ≡ breaks c (fault.Stream stream.StreamCreation) }
    ensures encoder { (c : Connection) (t more : List ℕ)
        → c.over ≡ false → c.encoder ≡ true → Encodes 0x02 t
        → run_stream c Uni (t ++ more) ≡ breaks c (fault.Stream stream.StreamCreation) }
    ensures decoder { (c : Connection) (t more : List ℕ)
        → c.over ≡ false → c.decoder ≡ true → Encodes 0x03 t
        → run_stream c Uni (t ++ more) ≡ breaks c (fault.Stream stream.StreamCreation) }
    ensures of_a_server { (c : Connection) (t more : List ℕ) (n : ℕ)
        → c.over ≡ false → c.endpoint.side ≡ Client → Encodes n t
        → (n ≡ 0x41 → c.endpoint.webtransport ≡ false)
        → run_stream c Bi (t ++ more) ≡ breaks c (fault.Stream stream.StreamCreation) }
    ensures first_byte { (c : Connection) (b : ℕ) (more : List ℕ)
        → c.over ≡ false → c.endpoint.side ≡ Client → c.endpoint.webtransport ≡ false
        → run_stream c Bi (b ∷ more) ≡ breaks c (fault.Stream stream.StreamCreation) }
    ensures end { (c : Connection) (bytes : List ℕ)
        → c.over ≡ false → c.endpoint.side ≡ Client → c.endpoint.webtransport ≡ false
        → ended (run_stream c Bi bytes) ≡ breaks c (fault.Stream stream.StreamCreation) }
    ensures reset { (c : Connection)
        → c.over ≡ false → c.endpoint.side ≡ Client → c.endpoint.webtransport ≡ false
        → resets c Bi ≡ refuses c stream.StreamCreation }
    ensures empty { (c : Connection)
        → c.over ≡ false → c.endpoint.side ≡ Client → c.endpoint.webtransport ≡ true
        → ended (run_stream c Bi []) ≡ all_given c Over (Ended ∷ []) }
    ensures id_code { code_of (fault.Stream stream.Id) ≡ 0x0108 }
    ensures creation_code { code_of (fault.Stream stream.StreamCreation) ≡ 0x0103 }
    ensures id_scope { scope_of (fault.Stream stream.Id) ≡ scope.Connection }
    ensures creation_scope { scope_of (fault.Stream stream.StreamCreation) ≡ scope.Connection }
{}

/// An interim response gives its section, and once the caller says what it is the stream is before the
/// next HEADERS, as often as 64 times. One more ends the stream alone, with H3_EXCESSIVE_LOAD.
pub fn interim_responses_are_found()
    ensures found { (c : Connection) (i : Interim) (k : ℕ) (given : Bool)
        → c.over ≡ false → c.endpoint.side ≡ Client → k < 64
        → ValidInterim c.endpoint.webtransport c.endpoint.max_section 0 i
        → FindsInterim c (Frames (awaiting c.endpoint k) given) i
        (c, Frames (awaiting c.endpoint (k + 1)) true, None) }
    ensures bound { (c : Connection) (i : Interim) (given : Bool)
        → c.over ≡ false → c.endpoint.side ≡ Client
        → ValidInterim c.endpoint.webtransport c.endpoint.max_section 0 i
        → FindsInterim c (Frames (awaiting c.endpoint 64) given) i
        (c, Over, Some (fault.Stream stream.TooManyInterim)) }
    ensures code { code_of (fault.Stream stream.TooManyInterim) ≡ 0x0107 }
    ensures scope { scope_of (fault.Stream stream.TooManyInterim) ≡ scope.Stream }
{}

/// Requests that are reset before their answer are too many as soon as more of them were than were
/// answered and the excess together, and not before. From then on nothing changes.
pub fn excessive_resets_are_reported()
    ensures found { (excess n : ℕ) (fates : List Fate) → length fates < 2 ^ 64
        → answers_in (take n fates) + excess < resets_in (take n fates)
        → is_exceeded (after_all (budget_of excess) fates) ≡ true }
    ensures alone { (excess : ℕ) (fates : List Fate) → length fates < 2 ^ 64
        → is_exceeded (after_all (budget_of excess) fates) ≡ true
        → (n : ℕ) × (answers_in (take n fates) + excess < resets_in (take n fates)) }
    ensures kept { (b : RequestBudget) (fates : List Fate) → is_exceeded b ≡ true
        → after_all b fates ≡ b }
{}

/// It is known of each request whether it has begun, unless one that has is 512 places or more ahead of
/// it. No request that has not begun is ever taken for one that has.
pub fn begun_requests_are_known()
    ensures known { (ns : List ℕ) (n : ℕ) → (begun_by ns).lost ≤ n
        → beginning_at (begun_by ns) n ≡ beginning_of (has_begun ns n) }
    ensures kept { (ns : List ℕ) (n : ℕ) → IsNotFarBehind ns n → (begun_by ns).lost ≤ n }
    ensures never { (ns : List ℕ) (n : ℕ) → has_begun ns n ≡ false
        → beginning_at (begun_by ns) n ≡ beginning.Begun → ⊥ }
{}

/// A server takes no session for over whose request did not come; and while no request is 512 places
/// ahead of that of a session, it knows whether the session is over or to come.
pub fn sessions_without_a_stream_are_known()
    ensures over { (e : Endpoint) (ids : List ℕ) (s : ℕ)
        → known_alone (accepted_all e ids) s ≡ known.Over → has_begun ids s ≡ true }
    ensures known { (e : Endpoint) (ids : List ℕ) (s : ℕ) → e.side ≡ Server → s % 4 ≡ 0
        → ((id : ℕ) → has_begun ids id ≡ true → id % 4 ≡ 0 → id < s + 2048)
        → known_alone (accepted_all e ids) s ≡ over_if (has_begun ids s) }
{}

/// What a call finds first does not depend on the bytes that follow, but for the length of a piece of
/// DATA: what is found and the states after it are the same, and so are the bytes consumed, of which an
/// error has all.
pub fn first_finds_may_be_cut()
    ensures { (c : Connection) (s : Stream) (a b : List ℕ)
        → first_seen c s (a ++ b) ≡ with_more (first_seen c s a) b }
{}

/// A loop of calls ends: of `n` bytes at most `n + 2` calls return something before one returns `More`
/// or an error.
pub fn calls_end()
    ensures { (xs : List Found) (s : Stream) (bytes : List ℕ) → AreReturned xs s bytes
        → length xs ≤ length bytes + 2 }
{}

/// Cancellations of streams are read on a decoder stream of QPACK, whatever encodings the IDs have.
/// The first other instruction after them is not, nor one whose ID is 2^62 or more.
pub fn cancelled_streams_are_read()
    ensures cancelled { (ids s : List ℕ) → AreCancellations ids s
        → after_bytes Between s ≡ Some Between }
    ensures other { (ids s more : List ℕ) (b : ℕ) → AreCancellations ids s → (b / 64 ≡ 1 → ⊥)
        → after_bytes Between (s ++ (b ∷ more)) ≡ None }
    ensures large { (ids s t more : List ℕ) (id : ℕ) → AreCancellations ids s
        → BeginsCancellation t → IsInt 6 id t → 2 ^ 62 ≤ id
        → after_bytes Between (s ++ (t ++ more)) ≡ None }
{}
