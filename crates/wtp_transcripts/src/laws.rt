//! Laws of the definitions that the contracts of `wtp_connection` cite, about all streams of a
//! connection. Each function does nothing: its contract is the law.
ghost use Rattle.std.specs.Prelude.{◌≡◌, ℕ, ◌%◌, ◌≤◌, ◌||◌, Bool, true, false, List, [], ◌∷◌, ◌++◌, map, length, Some, None, Ok};
ghost use Rattle.wtp_core.specs.Varint.{Encodes};
ghost use Rattle.wtp_frames.specs.declared.endpoint.Endpoint.{Endpoint};
ghost use Rattle.wtp_connection.specs.declared.connection.Connection.{Connection};
ghost use Rattle.wtp_connection.specs.declared.connection.Found.{Found};
ghost use Rattle.wtp_connection.specs.declared.connection.Known.TheVariants as known;
ghost use Rattle.wtp_connection.specs.declared.settings.PeerSettings.{PeerSettings};
ghost use Rattle.wtp_connection.specs.declared.stream.Purpose.TheVariants as «for»;
ghost use Rattle.wtp_connection.specs.declared.stream.Stream.{Stream};
ghost use Rattle.wtp_connection.specs.declared.stream.Stream.TheVariants.{Uni, Bi, Waiting, Session};
ghost use Rattle.wtp_connection.specs.Datagrams.{taken};
ghost use Rattle.wtp_connection.specs.Receiving.{FoundIs, seen_of, consumed_in};
ghost use Rattle.wtp_connection.specs.Streams.{connection_of, resuming_of, without_resumption, Opened, bytes_seen};
ghost use Rattle.wtp_transcripts.specs.Calls.{CallStep, Leads, calls_on, AreReads, arrived, end_arrived, found_in, IsIdle};
ghost use Rattle.wtp_transcripts.specs.Transcript.{read, AreCalls, seen_by, Held, Event, Came, Told, happens, alone, bytes_in, end_in, last_said, at_once, joined, EndsOnce, IsPiece, IsRead, IsStill, Table, Step, On, Transcript, State, begin, next, after, found_by, seen_in, datagrams_in, taken_in, on_stream, events_of, end_seen, places, waiting_among, AreDistinct, AreOf, HasPlaces, KeepsRules, StopsNone, AreTaken, AllHavePlaces, WaitAmong, NoneWaits, SameOn, resumes, KeepsRemembered};

/// A loop of calls that goes on until one returns `More` finds all that is in the bytes, and at the end
/// of the stream if it comes after them. The connection, the stream and the bytes that are left are
/// then those after it.
pub fn calls_find_everything()
    ensures { (xs : List Found) (fin : Bool) (c d : Connection) (s t : Stream) (bytes left : List ℕ)
        → AreCalls xs fin c s bytes d t left
        → read fin c s bytes
        ≡ record { seen = seen_by xs bytes; connection = d; stream = t; left = left } }
{}

/// Calls on many streams may be interleaved in any order, and a stream need not be read to its last byte
/// before another one is. While no error ends the connection, and nothing but `receive` is called on a
/// stream, what its calls find is what is in all of its bytes, joined, as the connection was before
/// them, once they find nothing more. A stream that waits gives nothing and loses no byte; one of an
/// open session gives exactly its bytes, and its end. Between the calls datagrams may come, and any call
/// may be made on other streams. The connection resumes no session, or SETTINGS came.
pub fn calls_may_be_interleaved()
    ensures seen { (steps : List CallStep) (c d : Connection) (t u : Table) (n : ℕ)
        → c.resumed ≡ false → Leads steps c t d u → d.over ≡ false
        → AreReads (t n).fin (calls_on n steps) → IsIdle d (u n)
        → found_in (calls_on n steps) (t n).left
        ≡ (read ((t n).fin || end_arrived (calls_on n steps)) c (t n).stream
        ((t n).left ++ arrived (calls_on n steps))).seen }
    ensures stream { (steps : List CallStep) (c d : Connection) (t u : Table) (n : ℕ)
        → c.resumed ≡ false → Leads steps c t d u → d.over ≡ false
        → AreReads (t n).fin (calls_on n steps) → IsIdle d (u n)
        → (u n).stream
        ≡ (read ((t n).fin || end_arrived (calls_on n steps)) c (t n).stream
        ((t n).left ++ arrived (calls_on n steps))).stream }
    ensures waiting { (steps : List CallStep) (c d : Connection) (t u : Table) (n s : ℕ)
        → c.resumed ≡ false → Leads steps c t d u → d.over ≡ false
        → AreReads (t n).fin (calls_on n steps) → IsIdle d (u n) → (t n).stream ≡ Waiting s
        → (found_in (calls_on n steps) (t n).left ≡ [])
        × ((u n).left ≡ (t n).left ++ arrived (calls_on n steps)) }
    ensures session { (steps : List CallStep) (c d : Connection) (t u : Table) (n s : ℕ)
        → c.resumed ≡ false → Leads steps c t d u → d.over ≡ false
        → AreReads (t n).fin (calls_on n steps) → IsIdle d (u n) → (t n).stream ≡ Session s
        → found_in (calls_on n steps) (t n).left
        ≡ bytes_seen ((t n).left ++ arrived (calls_on n steps))
        ++ end_seen ((t n).fin || end_arrived (calls_on n steps)) }
{}

/// A piece of a stream may be cut in two anywhere: what is found from then on, on all streams, is the
/// same in the same order, and so is the connection.
pub fn pieces_may_be_cut()
    ensures seen { (x : State) (n : ℕ) (a b : List ℕ) (fin : Bool) (steps : Transcript)
        → (x.streams n).fin ≡ false
        → seen_in x (On n (Came (a ++ b) fin) ∷ steps)
        ≡ seen_in x (On n (Came a false) ∷ On n (Came b fin) ∷ steps) }
    ensures connection { (x : State) (n : ℕ) (a b : List ℕ) (fin : Bool) (steps : Transcript)
        → (x.streams n).fin ≡ false
        → (after x (On n (Came (a ++ b) fin) ∷ steps)).connection
        ≡ (after x (On n (Came a false) ∷ On n (Came b fin) ∷ steps)).connection }
{}

/// On a connection that no error ends, each stream gives what it gives alone, on a connection that has
/// no other stream, and the same is held of it; no error ends that connection either. A stream that is
/// to wait needs a place: at most 16 streams wait.
pub fn streams_are_independent()
    ensures seen { (e : Endpoint) (t : Table) (n : ℕ) (steps : Transcript)
        → places (t n).stream ≡ 0 → (after (begin e t) steps).connection.over ≡ false
        → HasPlaces n (begin e t) steps
        → on_stream n (seen_in (begin e t) steps)
        ≡ (alone (connection_of e) (t n) (events_of n steps)).seen }
    ensures held { (e : Endpoint) (t : Table) (n : ℕ) (steps : Transcript)
        → places (t n).stream ≡ 0 → (after (begin e t) steps).connection.over ≡ false
        → HasPlaces n (begin e t) steps
        → (after (begin e t) steps).streams n
        ≡ (alone (connection_of e) (t n) (events_of n steps)).held }
    ensures over { (e : Endpoint) (t : Table) (n : ℕ) (steps : Transcript)
        → places (t n).stream ≡ 0 → (after (begin e t) steps).connection.over ≡ false
        → HasPlaces n (begin e t) steps
        → (alone (connection_of e) (t n) (events_of n steps)).connection.over ≡ false }
{}

/// Up to the first error that ends the connection each stream gives what it gives alone. After it
/// nothing is found on any stream, whatever happens, and the connection stays so.
pub fn nothing_is_found_after_an_error()
    ensures first { (e : Endpoint) (t : Table) (n : ℕ) (first rest : Transcript) (a : Step)
        → places (t n).stream ≡ 0 → (after (begin e t) first).connection.over ≡ false
        → HasPlaces n (begin e t) first
        → (next (after (begin e t) first) a).connection.over ≡ true
        → on_stream n (seen_in (begin e t) (first ++ (a ∷ rest)))
        ≡ (alone (connection_of e) (t n) (events_of n first)).seen
        ++ on_stream n (found_by (after (begin e t) first) a) }
    ensures seen { (x : State) (first rest : Transcript) → (after x first).connection.over ≡ true
        → seen_in x (first ++ rest) ≡ seen_in x first }
    ensures over { (x : State) (steps : Transcript) → x.connection.over ≡ true
        → (after x steps).connection.over ≡ true }
{}

/// The connection counts the streams that wait for sessions, whatever happens, and they are never more
/// than 16.
pub fn waiting_streams_are_counted()
    ensures count { (e : Endpoint) (t : Table) (ns : List ℕ) (steps : Transcript) → AreDistinct ns
        → AreOf ns steps → waiting_among ns t ≡ 0
        → (after (begin e t) steps).connection.waiting
        ≡ waiting_among ns (after (begin e t) steps).streams }
    ensures few { (e : Endpoint) (t : Table) (ns : List ℕ) (steps : Transcript) → AreDistinct ns
        → AreOf ns steps → waiting_among ns t ≡ 0
        → (after (begin e t) steps).connection.waiting ≤ 16 }
{}

/// While it is said of at most 16 streams that their sessions are to come, each of them has a place to
/// wait, in whatever order they do.
pub fn sixteen_streams_may_wait()
    ensures { (e : Endpoint) (t : Table) (ns : List ℕ) (steps : Transcript) → NoneWaits t
        → AreDistinct ns → length ns ≤ 16 → WaitAmong ns steps
        → AllHavePlaces (begin e t) steps }
{}

/// A stream that waits keeps all bytes that come, and gives nothing. Once its session is open it gives
/// all of them, and its end if that came.
pub fn waiting_streams_lose_nothing()
    ensures kept { (c : Connection) (s : ℕ) (left bytes : List ℕ) (old fin : Bool) → c.over ≡ false
        → happens c (record { stream = Waiting s; left = left; fin = old }) (Came bytes fin)
        ≡ record {
          seen = [];
          connection = c;
          held = record { stream = Waiting s; left = left ++ bytes; fin = old || fin };
        } }
    ensures given { (c : Connection) (s : ℕ) (left : List ℕ) (fin : Bool) → c.over ≡ false
        → (happens c (record { stream = Waiting s; left = left; fin = fin }) (Told known.Open)).seen
        ≡ bytes_seen left ++ end_seen fin }
{}

/// However the bytes of a stream are cut, and whenever it is said that its session is open or over, it
/// gives what it gives if all of its bytes come at once, with its end if that comes, and what is known
/// of the session is said then.
pub fn streams_give_their_bytes()
    ensures alone { (c : Connection) (h : Held) (events : List Event) → IsStill c h → IsRead c h events
        → (alone c h events).connection.over ≡ false
        → alone c h events ≡ alone c h (at_once events) }
    ensures all { (e : Endpoint) (t : Table) (n : ℕ) (steps : Transcript)
        → places (t n).stream ≡ 0 → (after (begin e t) steps).connection.over ≡ false
        → HasPlaces n (begin e t) steps → IsStill (connection_of e) (t n)
        → IsRead (connection_of e) (t n) (events_of n steps)
        → on_stream n (seen_in (begin e t) steps)
        ≡ (alone (connection_of e) (t n) (at_once (events_of n steps))).seen }
{}

/// The bytes that come between two calls of the caller on a stream may be cut anywhere: the stream gives
/// the same, and the same is held of it. These calls say what is known of its session, that HEADERS are
/// those of an interim response or make it a tunnel, or that it is reset, overflows or is abandoned.
pub fn bytes_between_calls_may_be_cut()
    ensures { (c : Connection) (h : Held) (events : List Event) → EndsOnce h.fin events
        → alone c h events ≡ alone c h (joined events) }
{}

/// A call that finds a frame or bytes leaves the connection and the stream as if no other bytes than
/// those that it consumed had come. So what is said of HEADERS then is said between these bytes and
/// those that follow.
pub fn calls_stop_at_what_they_find()
    ensures { (x : Found) (c d : Connection) (s t : Stream) (bytes : List ℕ) (fin : Bool)
        → FoundIs x c s bytes fin d t → IsPiece x
        → read false c s (consumed_in x bytes)
        ≡ record { seen = seen_of x bytes; connection = d; stream = t; left = [] } }
{}

/// A stream of a session that is open at last gives what it is for, exactly its bytes, and its end if
/// that came, whatever encodings its first numbers have, however early its bytes come, and whatever
/// happens on other streams.
pub fn session_streams_are_whole()
    ensures uni { (e : Endpoint) (t : Table) (n s : ℕ) (steps : Transcript) (a b bytes : List ℕ)
        → e.webtransport ≡ true → Encodes 0x54 a → Encodes s b → s % 4 ≡ 0
        → t n ≡ record { stream = Uni; left = []; fin = false }
        → (after (begin e t) steps).connection.over ≡ false → HasPlaces n (begin e t) steps
        → IsRead (connection_of e) (t n) (events_of n steps)
        → bytes_in (events_of n steps) ≡ a ++ (b ++ bytes)
        → last_said None (events_of n steps) ≡ Some known.Open
        → on_stream n (seen_in (begin e t) steps)
        ≡ Opened («for».Session s) ∷ (bytes_seen bytes ++ end_seen (end_in (events_of n steps))) }
    ensures bi { (e : Endpoint) (t : Table) (n s : ℕ) (steps : Transcript) (a b bytes : List ℕ)
        → e.webtransport ≡ true → Encodes 0x41 a → Encodes s b → s % 4 ≡ 0
        → t n ≡ record { stream = Bi; left = []; fin = false }
        → (after (begin e t) steps).connection.over ≡ false → HasPlaces n (begin e t) steps
        → IsRead (connection_of e) (t n) (events_of n steps)
        → bytes_in (events_of n steps) ≡ a ++ (b ++ bytes)
        → last_said None (events_of n steps) ≡ Some known.Open
        → on_stream n (seen_in (begin e t) steps)
        ≡ Opened («for».Session s) ∷ (bytes_seen bytes ++ end_seen (end_in (events_of n steps))) }
{}

/// No error ends a connection whose peer keeps the rules, in whatever order its bytes come.
pub fn valid_connections_go_on()
    ensures { (e : Endpoint) (t : Table) (steps : Transcript) → NoneWaits t → KeepsRules e t steps
        → AllHavePlaces (begin e t) steps → (after (begin e t) steps).connection.over ≡ false }
{}

/// What the streams of a peer that keeps the rules give does not depend on the order between them: if
/// the same bytes come on each stream, and the same is known of its session at last, each gives the
/// same, and no error ends the connection. If other calls are made on a stream (its HEADERS are said to be
/// those of an interim response or to make it a tunnel; it is reset or abandoned, or told of the end of
/// its session), the same are made in both orders, with the same bytes between them, however cut.
/// Datagrams may come in either order, wherever they do: what they are is in `datagrams_are_independent`.
pub fn order_makes_no_difference()
    ensures seen { (e : Endpoint) (t : Table) (n : ℕ) (first second : Transcript) → NoneWaits t
        → KeepsRules e t first → ((k : ℕ) → SameOn e t k first second) → StopsNone second
        → AreTaken e second → AllHavePlaces (begin e t) first → AllHavePlaces (begin e t) second
        → on_stream n (seen_in (begin e t) second) ≡ on_stream n (seen_in (begin e t) first) }
    ensures over { (e : Endpoint) (t : Table) (first second : Transcript) → NoneWaits t
        → KeepsRules e t first → ((k : ℕ) → SameOn e t k first second) → StopsNone second
        → AreTaken e second → AllHavePlaces (begin e t) second
        → (after (begin e t) second).connection.over ≡ false }
{}

/// A datagram is the same wherever it comes between the bytes of streams, while no error ends the
/// connection: it has its session and its payload, or is dropped if the own SETTINGS do not enable
/// datagrams. After an error nothing is taken.
pub fn datagrams_are_independent()
    ensures taken { (x : State) (steps : Transcript) → (after x steps).connection.over ≡ false
        → taken_in x steps ≡ map (λ b. taken x.connection b) (datagrams_in steps) }
    ensures over { (x : State) (steps : Transcript) → x.connection.over ≡ true
        → taken_in x steps ≡ map (λ b. Ok None) (datagrams_in steps) }
{}

/// On a connection that resumes a session and that no error ends, everything is found as on one that
/// resumes none, on all streams and in the same order. It goes on if that one does, and all SETTINGS keep
/// what is remembered (RFC 9114, section 7.2.4.2). If the server does not accept 0-RTT nothing is
/// remembered.
pub fn resumption_changes_nothing_else()
    ensures seen { (e : Endpoint) (v : PeerSettings) (t : Table) (steps : Transcript)
        → (after (resumes e v t) steps).connection.over ≡ false
        → seen_in (resumes e v t) steps ≡ seen_in (begin e t) steps }
    ensures streams { (e : Endpoint) (v : PeerSettings) (t : Table) (steps : Transcript) (n : ℕ)
        → (after (resumes e v t) steps).connection.over ≡ false
        → (after (resumes e v t) steps).streams n ≡ (after (begin e t) steps).streams n }
    ensures over { (e : Endpoint) (v : PeerSettings) (t : Table) (steps : Transcript)
        → (after (resumes e v t) steps).connection.over ≡ false
        → (after (begin e t) steps).connection.over ≡ false }
    ensures kept { (e : Endpoint) (v : PeerSettings) (t : Table) (steps : Transcript)
        → (after (begin e t) steps).connection.over ≡ false → KeepsRemembered e v t steps
        → (after (resumes e v t) steps).connection.over ≡ false }
    ensures refused { (e : Endpoint) (v : PeerSettings)
        → without_resumption (resuming_of e v) ≡ connection_of e }
{}

/// `order_makes_no_difference` holds of a connection that resumes a session too, if the SETTINGS of the
/// server keep what is remembered.
pub fn order_makes_no_difference_to_a_resumed_session()
    ensures seen { (e : Endpoint) (v : PeerSettings) (t : Table) (n : ℕ) (first second : Transcript)
        → NoneWaits t → KeepsRules e t first → ((k : ℕ) → SameOn e t k first second)
        → StopsNone second → AreTaken e second → AllHavePlaces (begin e t) first
        → AllHavePlaces (begin e t) second → KeepsRemembered e v t first
        → on_stream n (seen_in (resumes e v t) second)
        ≡ on_stream n (seen_in (resumes e v t) first) }
    ensures over { (e : Endpoint) (v : PeerSettings) (t : Table) (first second : Transcript)
        → NoneWaits t → KeepsRules e t first → ((k : ℕ) → SameOn e t k first second)
        → StopsNone second → AreTaken e second → AllHavePlaces (begin e t) first
        → AllHavePlaces (begin e t) second → KeepsRemembered e v t first
        → (after (resumes e v t) second).connection.over ≡ false }
{}
