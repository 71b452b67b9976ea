//! Laws of the definitions that the contracts cite. Each function does nothing: its contract is the
//! law. `Receives` is a call of `receive`, but for bytes of the encoder stream where a dynamic table is
//! allowed: of these `InstructionsGive` says what a call gives.
ghost use Rattle.std.specs.Prelude.{◌≡◌, ◌||◌, ◌+◌, ◌^◌, ◌<◌, ◌≤◌, ◌⊎◌, ℕ, Bool, true, false, List, ◌∷◌, ◌++◌, length, drop, Option, Some, None, codes};
ghost use Rattle.wtp_webtransport.specs.declared.connection.Connection.{Connection};
ghost use Rattle.wtp_webtransport.specs.declared.stream.Stream.{Stream};
ghost use Rattle.wtp_webtransport.specs.Events.{More, Waits, SessionLost, StreamError};
ghost use Rattle.wtp_webtransport.specs.Receiving.{Outcome, Receives, SectionGives, last};
ghost use Rattle.wtp_webtransport.specs.Calls.{Stops, Finishes, Continues, Reads, SaysTo, left_of, told_before, told_all, course_of, plain, moved, IsSession, IsPiece, HasMemory, HasFrames, Grown};
ghost use Rattle.wtp_webtransport.specs.Progress.{IsSound, calls_left, GoOn};
ghost use Rattle.wtp_webtransport.specs.Said.{of_session, said, Says, Follow, IsOpen, SessionReads, session_told, AreAlike};
ghost use Rattle.wtp_connection.specs.Opening.{is_critical};
ghost use Rattle.wtp_webtransport.specs.Endings.{KeepsSession, KeepsAfter, accepts_session, Marks, MarksAfter, IsQuiet, IsLoss, had_session, KeepsPast, AreOver, IsDone};
ghost use Rattle.wtp_webtransport.specs.Joining.{resets, stops_half, abandons, joins, overflows, rejects};
ghost use Rattle.wtp_webtransport.specs.Streams.{is_held, answered, stream_of, asking_stream, session_stream};
ghost use Rattle.wtp_webtransport.specs.Sessions.{known_of, allows_sessions, asks_of};
ghost use Rattle.wtp_webtransport.specs.Enabling.{EnableSessions, IsRequest};
ghost use Rattle.wtp_webtransport.specs.Fault.{code_of, scope_of};
ghost use Rattle.wtp_webtransport.specs.declared.fault.Fault.TheVariants as fault;
ghost use Rattle.wtp_webtransport.specs.declared.connection.messages.Asks.TheVariants as asks;
ghost use Rattle.wtp_core.specs.declared.error.scope.ErrorScope.TheVariants as scope;
ghost use Rattle.wtp_connection.specs.Settings.{values_of, with_defaults};
ghost use Rattle.wtp_messages.specs.Names.{has_value};
ghost use Rattle.wtp_qpack.specs.Field.{Field};
ghost use Rattle.wtp_webtransport.specs.Unacknowledged.{just_read};
ghost use Rattle.wtp_webtransport.specs.declared.stream.Delay.{Delay};
ghost use Rattle.wtp_webtransport.specs.declared.stream.Part.TheVariants as part;
ghost use Rattle.wtp_webtransport.specs.declared.stream.Unread.TheVariants as unread;
ghost use Rattle.wtp_webtransport.specs.declared.event.Waits.TheVariants as wait;
ghost use Rattle.wtp_connection.specs.declared.stream.Stream.TheVariants as frames;
ghost use Rattle.wtp_frames.specs.declared.endpoint.Side.TheVariants.{Client, Server};
ghost use Rattle.wtp_messages.specs.declared.message.Message.{Message};
ghost use Rattle.wtp_connection.specs.declared.connection.Known.TheVariants.{Coming, Open, Over, Refused, Other, Impossible};
ghost use Rattle.wtp_connection.specs.declared.stream.Stream.{Stream as Frames};
ghost use Rattle.wtp_messages.specs.declared.response.Asked.{Asked};
ghost use Rattle.wtp_connection.specs.declared.connection.Known.{Known};
ghost use Rattle.wtp_messages.specs.Content.{fits, left_after};
ghost use Rattle.wtp_qpack.specs.Integer.{IsInt};
ghost use Rattle.wtp_wire.specs.Front.{EncodesPair};
ghost use Rattle.wtp_webtransport.specs.declared.capsules.CapsuleType.{CapsuleType};
ghost use Rattle.wtp_webtransport.specs.declared.capsules.Sort.TheVariants.{Read, Skip, Refuse};
ghost use Rattle.wtp_webtransport.specs.Capsules.{Found, Place, between, place_by, sort_of, CapsuleIs, IsPlace};
ghost use Rattle.wtp_webtransport.specs.Cuts.{breaks, followed, after_found, run, IsProper};
ghost use Rattle.wtp_webtransport.specs.Places.{IsPlaced};
ghost use Rattle.wtp_webtransport.specs.Prefix.{names_table};
ghost use Rattle.wtp_webtransport.specs.Tables.{InstructionsGive, Call, KeepsLimits, due_read, after_cancel};
ghost use Rattle.wtp_webtransport.specs.Words.{without_table};
ghost use Rattle.wtp_dynamic_decoder.specs.Decoder.{Decoder};

/// A session ends once: `SessionClosed` and `SessionLost` come only on the own stream of a session that
/// is held, and it is held no longer after them. Without them it is held after a call exactly if it was
/// before, or if `SessionReady` came; and after an answer exactly if it was before, or if the answer
/// accepts it.
pub fn sessions_end_once()
    ensures receive { (limit : ℕ) (c : Connection) (s : Stream) (bytes : List ℕ) (fin : Bool) (o : Outcome)
        → Receives limit c s bytes fin o → KeepsSession s o }
    ensures reset { (c : Connection) (s : Stream) → KeepsAfter s (resets c s) }
    ensures stop { (c : Connection) (s : Stream) → KeepsAfter s (stops_half c s) }
    ensures abandon { (c : Connection) (s : Stream) → KeepsAfter s (abandons c s) }
    ensures join { (c : Connection) (s : Stream) (k : Known) → KeepsAfter s (joins c s k) }
    ensures overflow { (c : Connection) (s : Stream) → KeepsAfter s (overflows c s) }
    ensures reject { (c : Connection) (s : Stream) (id : ℕ) (goaway : Option ℕ)
        → KeepsAfter s (rejects c s id goaway) }
    ensures answer { (s : Stream) (status : ℕ) → is_held (answered s status).part
        ≡ (is_held s.part || accepts_session s.part status) }
{}

/// An error of the connection is its last event. The connection is over after one of these calls exactly
/// if it was before, or if the call returned `ConnectionError`. Then each of them returns `More` and
/// changes nothing (`quiet`), and `receive` consumes all bytes (`consumed`).
pub fn errors_are_last()
    ensures receive { (limit : ℕ) (c : Connection) (s : Stream) (bytes : List ℕ) (fin : Bool) (o : Outcome)
        → Receives limit c s bytes fin o → Marks c o }
    ensures instructions { (d : Decoder) (c : Connection) (s : Stream) (bytes : List ℕ) (o : Outcome)
        → InstructionsGive d c s bytes o → Marks c o }
    ensures reset { (c : Connection) (s : Stream) → MarksAfter c (resets c s) }
    ensures stop { (c : Connection) (s : Stream) → MarksAfter c (stops_half c s) }
    ensures abandon { (c : Connection) (s : Stream) → MarksAfter c (abandons c s) }
    ensures join { (c : Connection) (s : Stream) (k : Known) → MarksAfter c (joins c s k) }
    ensures overflow { (c : Connection) (s : Stream) → MarksAfter c (overflows c s) }
    ensures reject { (c : Connection) (s : Stream) (id : ℕ) (goaway : Option ℕ)
        → MarksAfter c (rejects c s id goaway) }
    ensures consumed { (limit : ℕ) (c : Connection) (s : Stream) (bytes : List ℕ) (fin : Bool) (o : Outcome)
        → c.over ≡ true → Receives limit c s bytes fin o → o ≡ (length bytes, More, c, s) }
    ensures quiet { (c : Connection) (s : Stream) → c.over ≡ true → IsQuiet c s }
{}

/// A stream that is over stays so. Once its frames are over, no section is unread, and no event of its
/// message or session is due, each call of `receive` consumes all bytes, returns `More`, and changes
/// nothing.
pub fn streams_end_once()
    ensures { (limit : ℕ) (c : Connection) (s : Stream) (bytes : List ℕ) (fin : Bool) (o : Outcome)
        → AreOver s.frames → IsDone s.part → s.unread ≡ unread.Nothing
        → Receives limit c s bytes fin o → o ≡ (length bytes, More, c, s) }
{}

/// No reset closes a session. If its stream is reset or abandoned, or the peer stops the own half, it is
/// lost, or the connection ends; and after an error of its stream it is lost.
pub fn sessions_are_lost()
    ensures reset { (c : Connection) (s : Stream) → c.over ≡ false → is_held s.part ≡ true
        → IsLoss (resets c s).0 }
    ensures stop { (c : Connection) (s : Stream) → c.over ≡ false → is_held s.part ≡ true
        → IsLoss (stops_half c s).0 }
    ensures abandon { (c : Connection) (s : Stream) → c.over ≡ false → is_held s.part ≡ true
        → IsLoss (abandons c s).0 }
    ensures failed { (limit : ℕ) (c : Connection) (s : Stream) (bytes : List ℕ) (fin : Bool) (o : Outcome)
        → c.over ≡ false → s.unread ≡ unread.Nothing → s.part ≡ part.Losing
        → Receives limit c s bytes fin o → o ≡ last c s SessionLost (length bytes) }
{}

/// A session is over exactly if its stream had it and has it no longer, and once it had one, that stays
/// so (`had`). So a stream that overtakes its session is never told that it is gone: at a server the
/// session is to come before its request has a byte, before the header section is whole, and before the
/// answer. Of a request without a stream see `wtp_connection`.
pub fn early_streams_wait()
    ensures over { (c : Connection) (s : Stream) → known_of c s ≡ Over → had_session s.part ≡ true }
    ensures past { (c : Connection) (s : Stream) → had_session s.part ≡ true → known_of c s ≡ Over }
    ensures had { (limit : ℕ) (c : Connection) (s : Stream) (bytes : List ℕ) (fin : Bool) (o : Outcome)
        → Receives limit c s bytes fin o → KeepsPast s.part o.3.part }
    ensures reset { (c : Connection) (s : Stream) → KeepsPast s.part (resets c s).2.part }
    ensures stop { (c : Connection) (s : Stream) → KeepsPast s.part (stops_half c s).2.part }
    ensures abandon { (c : Connection) (s : Stream) → KeepsPast s.part (abandons c s).2.part }
    ensures join { (c : Connection) (s : Stream) (k : Known) → KeepsPast s.part (joins c s k).2.part }
    ensures overflow { (c : Connection) (s : Stream) → KeepsPast s.part (overflows c s).2.part }
    ensures reject { (c : Connection) (s : Stream) (id : ℕ) (goaway : Option ℕ)
        → KeepsPast s.part (rejects c s id goaway).2.part }
    ensures answer { (s : Stream) (status : ℕ) → KeepsPast s.part (answered s status).part }
    ensures new { (c : Connection) → c.endpoint.side ≡ Server → known_of c (stream_of frames.Bi) ≡ Coming }
    ensures begun { (c : Connection) (s : Stream) (m : Message) → c.endpoint.side ≡ Server
        → s.part ≡ part.Head m → known_of c s ≡ Coming }
    ensures asked { (c : Connection) (s : Stream) (m : Message) → s.part ≡ part.Unanswered true m
        → known_of c s ≡ Coming }
{}

/// A request that waits loses nothing. While it has no answer, a call consumes nothing and changes
/// nothing, so its bytes are read after the answer as if they came then. A section that came before the
/// peer's SETTINGS, or before the insertions into the dynamic table that it needs, is read, by whatever
/// connection these made, as the section that comes next, once all of its bytes are passed.
pub fn waits_change_nothing()
    ensures answer { (limit : ℕ) (c : Connection) (s : Stream) (m : Message) (session : Bool) (bytes : List ℕ)
        (fin : Bool) (o : Outcome) → c.over ≡ false → s.unread ≡ unread.Nothing
        → s.part ≡ part.Unanswered session m → Receives limit c s bytes fin o
        → o ≡ (0, Waits wait.Answer, c, s) }
    ensures early { (why : Delay) (size limit : ℕ) (c : Connection) (s : Stream) (bytes : List ℕ) (fin : Bool)
        (o : Outcome)
        → Receives limit c (record s { unread = unread.Early size why }) bytes fin o → c.over ≡ false
        → size ≤ length bytes
        → SectionGives limit c (record s { unread = unread.Nothing }) 0 size bytes o }
{}

/// The bytes of a stream may be cut anywhere, but for those of an open session (of that see
/// [`sessions_may_be_cut`]). Wherever the calls have memory:
///
/// - `stops`: after a call on the bytes `a` that needs more bytes, or waits, a call with what it left
///   and `b` returns what one on `a` and `b` returns.
/// - `given`: any other event does not depend on the bytes that follow, and neither do the states after
///   it and the bytes consumed; with an error all are.
/// - `pieces`: a piece of content is the same, or longer by the piece that the next call returns. So is
///   the error that it is too long. The stream of a message has frames, and is none that must not be
///   closed.
///
/// Of a malformed section it is left open which of the rules that it breaks is named.
pub fn calls_may_be_cut()
    ensures stops { (limit : ℕ) (c : Connection) (s : Stream) (a b : List ℕ) (fin : Bool) (o p q : Outcome)
        → (IsSession s.part → ⊥) → Receives limit c s a false o → course_of o.1 ≡ Stops
        → Receives limit o.2 o.3 (drop o.0 a ++ b) fin p → HasMemory p
        → Receives limit c s (a ++ b) fin q → HasMemory q
        → plain q ≡ moved o.0 (length (a ++ b)) p }
    ensures given { (limit : ℕ) (c : Connection) (s : Stream) (a b : List ℕ) (fin : Bool) (o q : Outcome)
        → (IsSession s.part → ⊥) → Receives limit c s a false o → HasMemory o
        → (course_of o.1 ≡ Stops → ⊥) → (IsPiece o.1 → ⊥)
        → Receives limit c s (a ++ b) fin q → HasMemory q → plain q ≡ moved 0 (length (a ++ b)) o }
    ensures pieces { (limit : ℕ) (c : Connection) (s : Stream) (a b : List ℕ) (fin : Bool) (o q : Outcome)
        → (IsSession s.part → ⊥) → HasFrames s.part s.frames
        → Receives limit c s a false o → IsPiece o.1 → is_critical o.3.frames ≡ false
        → Receives limit c s (a ++ b) fin q → HasMemory q → Grown limit a b fin o q }
{}

/// However the bytes of a stream are cut, its calls say the same: the calls on the bytes `a`, up to one
/// that needs more bytes or waits, and then those on what it left and `b`, say together what the calls on
/// `a` and `b` say, byte by byte of pieces, and end with the same states; up to an error or the end they
/// say so alone. This is with memory, and before a session is open on the stream (of that see
/// [`sessions_may_be_cut`]).
///
/// `IsCall` says three things of each call:
///
/// - `ordinary`: no session is open on the stream.
/// - `frames`: the message of the stream, if one goes on, has frames. Only `overflow` leaves a message
///   without them, and the connection is over then.
/// - `free`: a piece of content came on no control stream, and on none of QPACK: these have no DATA.
///
/// A caller need not look after the last two: they hold of every stream that `accept`, `open` or
/// `Stream::of_session` created and that calls alone changed, though no law says so.
pub fn streams_may_be_cut()
    ensures stops { (limit : ℕ) (os fs gs : List Outcome) (z w y : Outcome) (c : Connection) (s : Stream)
        (a b : List ℕ) (fin : Bool) → Reads limit os z c s a false → course_of z.1 ≡ Stops
        → Reads limit fs w z.2 z.3 (left_of os z a ++ b) fin → Reads limit gs y c s (a ++ b) fin
        → SaysTo (told_before os ++ told_all fs w) w gs y }
    ensures ends { (limit : ℕ) (os gs : List Outcome) (z y : Outcome) (c : Connection) (s : Stream)
        (a b : List ℕ) (fin : Bool) → Reads limit os z c s a false → course_of z.1 ≡ Finishes
        → Reads limit gs y c s (a ++ b) fin → SaysTo (told_all os z) z gs y }
{}

/// However the bytes of the own stream of an open session are cut, its calls say the same of the session,
/// as long as it is open, also where allocation failed:
///
/// - `call`: what is said of all bytes is what a call on the first of them says, and then what is said of
///   those that it leaves and those that follow; or what it says alone, if the session ends with it.
/// - `stays`: after it the session is open, or it ended with the call.
/// - `stops`: the calls on the bytes `a`, and then those on what they left and `b`, say together what the
///   calls on `a` and `b` say.
/// - `alike`: and if the session is still open then, it is equally far.
/// - `ends`: if the session ends in the bytes `a`, what follows them makes no difference.
pub fn sessions_may_be_cut()
    ensures call { (limit : ℕ) (c : Connection) (s : Stream) (a b : List ℕ) (fin end : Bool) (o : Outcome)
        (h : IsOpen c s a) → Follow fin b end → Receives limit c s a fin o
        → Says end (drop o.0 a ++ b) (of_session o.1) o (said end h.size c s (a ++ b)) }
    ensures stays { (limit : ℕ) (c : Connection) (s : Stream) (a : List ℕ) (fin : Bool) (o : Outcome)
        → IsOpen c s a → Receives limit c s a fin o → IsSession o.3.part
        → IsOpen o.2 o.3 (drop o.0 a) }
    ensures stops { (limit : ℕ) (os fs gs : List Outcome) (z w y : Outcome) (c : Connection) (s : Stream)
        (a b : List ℕ) (fin : Bool) → IsOpen c s a → SessionReads limit os z c s a false
        → IsSession z.3.part → SessionReads limit fs w z.2 z.3 (left_of os z a ++ b) fin
        → SessionReads limit gs y c s (a ++ b) fin
        → session_told gs y ≡ session_told os z ++ session_told fs w }
    ensures alike { (limit : ℕ) (os fs gs : List Outcome) (z w y : Outcome) (c : Connection) (s : Stream)
        (a b : List ℕ) (fin : Bool) → IsOpen c s a → SessionReads limit os z c s a false
        → IsSession z.3.part → SessionReads limit fs w z.2 z.3 (left_of os z a ++ b) fin
        → SessionReads limit gs y c s (a ++ b) fin → IsSession w.3.part → IsSession y.3.part
        → AreAlike w y (left_of fs w (left_of os z a ++ b)) (left_of gs y (a ++ b)) }
    ensures ends { (limit : ℕ) (os gs : List Outcome) (z y : Outcome) (c : Connection) (s : Stream)
        (a b : List ℕ) (fin : Bool) → IsOpen c s a → SessionReads limit os z c s a false
        → (IsSession z.3.part → ⊥) → SessionReads limit gs y c s (a ++ b) fin
        → session_told gs y ≡ session_told os z }
{}

/// The content of a session may be cut anywhere, also where allocation failed: whatever follows the
/// bytes of a call, the capsules of all are the one that it returned, and then those of the bytes that
/// it left.
pub fn content_of_sessions_may_be_cut()
    ensures capsules { (found : Found) (p q : Place) (a b more : List ℕ)
        → IsProper p → CapsuleIs found p a q b
        → run p (a ++ more) ≡ after_found found (run q (b ++ more)) }
    ensures places { (begun : Option CapsuleType) (missing : ℕ) (head value : List ℕ)
        → IsPlace begun missing head value → IsProper (place_by begun missing head value) }
{}

/// Capsules are read as they are written, whatever encodings their numbers have (RFC 9297, section
/// 3.2).
pub fn written_capsules_are_read()
    ensures read { (id : ℕ) (k : CapsuleType) (value head more : List ℕ)
        → EncodesPair id (length value) head → sort_of id (length value) ≡ Read k
        → run between (head ++ (value ++ more)) ≡ followed (k, value) (run between more) }
    ensures skipped { (id : ℕ) (value head more : List ℕ)
        → EncodesPair id (length value) head → sort_of id (length value) ≡ Skip
        → run between (head ++ (value ++ more)) ≡ run between more }
    ensures refused { (id n : ℕ) (head more : List ℕ)
        → EncodesPair id n head → sort_of id n ≡ Refuse → run between (head ++ more) ≡ breaks }
{}

/// Content is judged by its DATA frames, however these are cut: a piece and the bytes of its frame
/// after it are within an announced length exactly if the frame is.
pub fn content_is_judged_by_frames()
    ensures alike { (left : Option ℕ) (a b rest : ℕ)
        → fits left ((a + b) + rest) ≡ fits left (a + (b + rest)) }
    ensures later { (left : Option ℕ) (a rest : ℕ)
        → fits left (a + rest) ≡ true → fits (left_after left a) rest ≡ true }
    ensures counted { (left : Option ℕ) (a b : ℕ)
        → left_after (left_after left a) b ≡ left_after left (a + b) }
{}

/// The prefix of a field section refers to a table exactly by its Required Insert Count and its Sign
/// bit (RFC 9204, sections 4.5.1.1 and 4.5.1.2): `names_table` says so. That such a section is an error
/// where no table is allowed is in the contract of `Connection::receive` (`PrefixGives`).
pub fn prefixes_that_name_a_table_are_refused()
    ensures count { (count : ℕ) (s more : List ℕ)
        → IsInt 8 count s → 0 < count → names_table (s ++ more) ≡ true }
    ensures sign { (b : ℕ) (more : List ℕ) → 128 ≤ b → names_table (0 ∷ b ∷ more) ≡ true }
    ensures neither { (b : ℕ) (more : List ℕ) → b < 128 → names_table (0 ∷ b ∷ more) ≡ false }
{}

/// Sessions are allowed exactly if SETTINGS of the peer came, with identifiers and values `ps` that enable
/// WebTransport, by the setting of any draft, and datagrams; the own SETTINGS enable both; and those of
/// the server enable extended CONNECT (draft-ietf-webtrans-http3-02, section 3.1;
/// draft-ietf-webtrans-http3-07, section 3.1; RFC 9220, section 3; RFC 9297, section 2.1.1).
pub fn sessions_need_settings_of_both_ends()
    ensures allowed { (c : Connection) (ps : List (ℕ × ℕ))
        → c.configured ≡ true → c.streams.peer ≡ with_defaults (values_of ps)
        → EnableSessions c.endpoint c.extended ps → allows_sessions c ≡ true }
    ensures needed { (c : Connection) (ps : List (ℕ × ℕ))
        → c.configured ≡ true → c.streams.peer ≡ with_defaults (values_of ps)
        → allows_sessions c ≡ true → EnableSessions c.endpoint c.extended ps }
    ensures early { (c : Connection) → c.configured ≡ false → allows_sessions c ≡ false }
{}

/// A request asks for a session exactly if its `:method` is CONNECT, its `:protocol` is webtransport and
/// sessions are allowed (draft-ietf-webtrans-http3-02, section 3.3; RFC 9220, section 3). Before the
/// peer's SETTINGS it is not known (`early`: draft-ietf-webtrans-http3-07, section 3.1). Any other CONNECT
/// request asks for a tunnel or for another protocol (`other`, `disabled` and `in_vain`), and any other
/// request for none (`plain`).
pub fn extended_connect_asks_for_sessions()
    ensures session { (c : Connection) (fields : List Field)
        → has_value (codes ":method") (codes "CONNECT") fields ≡ true
        → has_value (codes ":protocol") (codes "webtransport") fields ≡ true
        → allows_sessions c ≡ true → asks_of c fields ≡ asks.Session }
    ensures needed { (c : Connection) (fields : List Field) → asks_of c fields ≡ asks.Session
        → (has_value (codes ":method") (codes "CONNECT") fields ≡ true)
        × (has_value (codes ":protocol") (codes "webtransport") fields ≡ true)
        × (allows_sessions c ≡ true) }
    ensures early { (c : Connection) (fields : List Field)
        → has_value (codes ":method") (codes "CONNECT") fields ≡ true
        → has_value (codes ":protocol") (codes "webtransport") fields ≡ true
        → c.endpoint.webtransport ≡ true → c.configured ≡ false → asks_of c fields ≡ asks.TooEarly }
    ensures other { (c : Connection) (fields : List Field)
        → has_value (codes ":method") (codes "CONNECT") fields ≡ true
        → has_value (codes ":protocol") (codes "webtransport") fields ≡ false
        → asks_of c fields ≡ asks.Tunnel }
    ensures disabled { (c : Connection) (fields : List Field)
        → has_value (codes ":method") (codes "CONNECT") fields ≡ true
        → c.endpoint.webtransport ≡ false → asks_of c fields ≡ asks.Tunnel }
    ensures in_vain { (c : Connection) (fields : List Field)
        → has_value (codes ":method") (codes "CONNECT") fields ≡ true
        → c.configured ≡ true → allows_sessions c ≡ false → asks_of c fields ≡ asks.Tunnel }
    ensures plain { (c : Connection) (fields : List Field)
        → has_value (codes ":method") (codes "CONNECT") fields ≡ false → asks_of c fields ≡ asks.Plain }
{}

/// A server rejects each request that goes on and has the ID of its GOAWAY or a greater one, with
/// H3_REQUEST_REJECTED, and nothing else changes: not a request with a lower ID, not one without a GOAWAY,
/// and no stream that is none of a request (RFC 9114, sections 4.1.1 and 5.2).
pub fn requests_from_goaway_on_are_rejected()
    ensures rejected { (c : Connection) (s : Stream) (id first : ℕ)
        → c.over ≡ false → c.endpoint.side ≡ Server → IsRequest s.part → first ≤ id
        → (rejects c s id (Some first)).0 ≡ StreamError fault.Rejected }
    ensures processed { (c : Connection) (s : Stream) (id first : ℕ)
        → id < first → rejects c s id (Some first) ≡ (More, c, s) }
    ensures none { (c : Connection) (s : Stream) (id : ℕ) → rejects c s id None ≡ (More, c, s) }
    ensures no_request { (c : Connection) (s : Stream) (id : ℕ) (goaway : Option ℕ)
        → (IsRequest s.part → ⊥) → rejects c s id goaway ≡ (More, c, s) }
    ensures client { (c : Connection) (s : Stream) (id : ℕ) (goaway : Option ℕ)
        → c.endpoint.side ≡ Client → rejects c s id goaway ≡ (More, c, s) }
    ensures code { code_of fault.Rejected ≡ 0x010b }
    ensures scope { scope_of fault.Rejected ≡ scope.Stream }
{}

/// A session is open from the 2xx answer to its request on, and its request is refused by an answer of
/// 300 or more (draft-ietf-webtrans-http3-02, section 3.3). A request that asked for something else is
/// none of a session (RFC 9297, section 2), and a stream of a session is the own stream of none.
pub fn sessions_are_known_by_their_answers()
    ensures accepted { (c : Connection) (s : Stream) (m : Message) (status : ℕ)
        → s.part ≡ part.Unanswered true m → 200 ≤ status → status < 300
        → known_of c (answered s status) ≡ Open }
    ensures refused { (c : Connection) (s : Stream) (m : Message) (p : Place) (status : ℕ)
        → c.endpoint.side ≡ Server → s.part ≡ part.Unanswered true m → s.capsules ≡ Some p
        → 300 ≤ status → known_of c (answered s status) ≡ Refused }
    ensures other { (c : Connection) (s : Stream) (m : Message)
        → c.endpoint.side ≡ Server → s.capsules ≡ None
        → (s.part ≡ part.Body m) ⊎ (s.part ≡ part.Unanswered false m) → known_of c s ≡ Other }
    ensures member { (c : Connection) (s : Stream) → s.part ≡ part.OfSession
        → known_of c s ≡ Impossible }
    ensures open_alone { (c : Connection) (s : Stream) → known_of c s ≡ Open → IsSession s.part }
{}

/// The cancellation of a stream takes the acknowledgment that is due for its own section, and keeps that
/// which is due for the section of another stream (RFC 9204, sections 2.2.2.2 and 4.4.1).
pub fn cancellations_keep_other_acknowledgments()
    ensures other { (d : Decoder) (c : Connection) (required other id : ℕ)
        → c.decoder ≡ Some d → c.read ≡ Some (just_read required) → (other ≡ id → ⊥)
        → due_read (after_cancel c.decoder other c).decoder (after_cancel c.decoder other c).read id
        ≡ due_read c.decoder c.read id }
    ensures own { (d : Decoder) (c : Connection) (required id : ℕ)
        → c.decoder ≡ Some d → c.read ≡ Some (just_read required) → id < 2 ^ 62
        → due_read (after_cancel c.decoder id c).decoder (after_cancel c.decoder id c).read id ≡ None }
{}

/// No call consumes more bytes than it was passed, and those that an event refers to are the last of
/// them.
#[tactic(auto, using(crate::proofs::PlaceLemmas::received_placed, crate::proofs::PlaceLemmas::received_within))]
pub fn bytes_of_events_are_consumed_last()
    ensures within { (limit : ℕ) (c : Connection) (s : Stream) (bytes : List ℕ) (fin : Bool) (o : Outcome)
        → Receives limit c s bytes fin o → o.0 ≤ length bytes }
    ensures last { (limit : ℕ) (c : Connection) (s : Stream) (bytes : List ℕ) (fin : Bool) (o : Outcome)
        → Receives limit c s bytes fin o → IsPlaced o.1 o.0 bytes }
{}

/// A loop of calls ends: of `n` bytes at most `n + 3` calls return an event after which the caller goes on
/// with the bytes that are left, before one needs more bytes, waits, lacks memory, or returns the last
/// event of the stream.
///
/// `IsSound` says that a capsule that is cut is not complete yet: bytes of its head or its value are
/// missing. So it is of every stream ([`streams_are_sound`]).
#[tactic(auto, using(crate::proofs::ProgressLemmas::call_nears, crate::proofs::ProgressLemmas::calls_few))]
pub fn calls_end()
    ensures call { (limit : ℕ) (c : Connection) (s : Stream) (bytes : List ℕ) (fin : Bool) (o : Outcome)
        → IsSound s → Receives limit c s bytes fin o → course_of o.1 ≡ Continues
        → calls_left o.3 (drop o.0 bytes) < calls_left s bytes }
    ensures all { (limit : ℕ) (os : List Outcome) (c : Connection) (s : Stream) (bytes : List ℕ) (fin : Bool)
        → IsSound s → GoOn limit os c s bytes fin → length os ≤ length bytes + 3 }
{}

/// Of a capsule that is cut bytes are missing: so it is of every stream that `accept`, `open` and
/// `Stream::of_session` create, and every call leaves it so.
pub fn streams_are_sound()
    ensures accepted { (t : Frames) → IsSound (stream_of t) }
    ensures opened { (t : Frames) (a : Asked) → IsSound (asking_stream t a) }
    ensures own { (id : ℕ) → IsSound (session_stream id) }
    ensures receive { (limit : ℕ) (c : Connection) (s : Stream) (bytes : List ℕ) (fin : Bool) (o : Outcome)
        → IsSound s → Receives limit c s bytes fin o → IsSound o.3 }
    ensures join { (c : Connection) (s : Stream) (k : Known) → IsSound s → IsSound (joins c s k).2 }
    ensures reset { (c : Connection) (s : Stream) → IsSound s → IsSound (resets c s).2 }
    ensures stop { (c : Connection) (s : Stream) → IsSound s → IsSound (stops_half c s).2 }
    ensures abandon { (c : Connection) (s : Stream) → IsSound s → IsSound (abandons c s).2 }
    ensures overflow { (c : Connection) (s : Stream) → IsSound s → IsSound (overflows c s).2 }
    ensures reject { (c : Connection) (s : Stream) (id : ℕ) (goaway : Option ℕ)
        → IsSound s → IsSound (rejects c s id goaway).2 }
    ensures answer { (s : Stream) (status : ℕ) → IsSound s → IsSound (answered s status) }
{}

/// A call of `receive` keeps the limits of the dynamic table, and makes none: so the bytes of a table
/// need no more room after it.
pub fn tables_keep_their_limits()
    ensures { (limit : ℕ) (c : Connection) (s : Stream) (bytes : List ℕ) (fin : Bool) (o : Outcome)
        → Call limit c s bytes fin o → KeepsLimits c.decoder o.2.decoder }
{}

/// A call of `receive` without a dynamic table is one of `Receives`.
#[tactic(auto, using(crate::proofs::TableLemmas::call_alone))]
pub fn calls_without_a_table_are_plain()
    ensures { (limit : ℕ) (c : Connection) (s : Stream) (bytes : List ℕ) (fin : Bool) (o : Outcome)
        → without_table c ≡ c → Call limit c s bytes fin o → Receives limit c s bytes fin o }
{}
