//! Laws of the definitions that the contracts of `wtp_sending` and `wtp_webtransport` cite. Each function
//! does nothing: its contract is the law.
//!
//! In all of them `a ++ b` or `bytes ++ more` says where the bytes are cut: a call of the receiver gets as
//! many of the bytes that were sent as came, and those that it did not consume once more with what came
//! since. The connection of the receiver may change between two calls, by its other streams.
ghost use Rattle.std.specs.Prelude.{◌≡◌, ◌<◌, ◌≤◌, ◌^◌, ◌%◌, ◌++◌, ℕ, Bool, true, false, List, [], ◌∷◌, length, Option, Some, None, Ok, IsUtf8};
ghost use Rattle.wtp_core.specs.Varint.{shortest};
ghost use Rattle.wtp_wire.specs.Content.{SettingsOf};
ghost use Rattle.wtp_wire.specs.Settings.{settings_wire};
ghost use Rattle.wtp_wire.specs.Wire.{wire};
ghost use Rattle.wtp_qpack.specs.Field.{Field};
ghost use Rattle.wtp_fields.specs.FieldList.{list_size};
ghost use Rattle.wtp_dynamic.specs.EncoderState.{Encoder};
ghost use Rattle.wtp_dynamic.specs.Table.{insert_count};
ghost use Rattle.wtp_dynamic_decoder.specs.Decoder.{Decoder};
ghost use Rattle.wtp_dynamic_encoder.specs.Encoding.{State};
ghost use Rattle.wtp_frames.specs.declared.endpoint.Endpoint.{Endpoint};
ghost use Rattle.wtp_frames.specs.declared.endpoint.Side.TheVariants.{Client, Server};
ghost use Rattle.wtp_frames.specs.Start.{control_reader};
ghost use Rattle.wtp_connection.specs.declared.connection.Known.TheVariants.{Open};
ghost use Rattle.wtp_connection.specs.declared.settings.PeerSettings.{PeerSettings};
ghost use Rattle.wtp_connection.specs.declared.stream.Purpose.TheVariants as «for»;
ghost use Rattle.wtp_connection.specs.declared.stream.Stream.TheVariants as frames;
ghost use Rattle.wtp_connection.specs.Streams.{with_control, received_settings};
ghost use Rattle.wtp_messages.specs.declared.message.Role.TheVariants as role;
ghost use Rattle.wtp_messages.specs.declared.response.Asked.{Asked};
ghost use Rattle.wtp_messages.specs.Request.{is_connect, asks_for_session};
ghost use Rattle.wtp_messages.specs.Response.{status_of, is_success};
ghost use Rattle.wtp_sending.specs.declared.control.ControlSending.{ControlSending};
ghost use Rattle.wtp_sending.specs.declared.message.Place.TheVariants as sent;
ghost use Rattle.wtp_sending.specs.declared.message.Sending.{Sending};
ghost use Rattle.wtp_sending.specs.declared.peer.Peer.{Peer};
ghost use Rattle.wtp_sending.specs.Control.{after_settings, goaway_bytes, after_goaway};
ghost use Rattle.wtp_sending.specs.Encoded.{IsEncoded, SendsHeadAs, SendsTrailersAs};
ghost use Rattle.wtp_sending.specs.Message.{sending_of, headers_wire, is_head, SendsHead, SendsTrailers, after_data, after_end, opens, placed};
ghost use Rattle.wtp_sending.specs.Session.{uni_head, bi_head, datagram_head, drain_wire, close_data};
ghost use Rattle.wtp_webtransport.specs.declared.connection.Connection.{Connection};
ghost use Rattle.wtp_webtransport.specs.declared.stream.Stream.{Stream};
ghost use Rattle.wtp_webtransport.specs.declared.stream.Part.TheVariants as part;
ghost use Rattle.wtp_webtransport.specs.declared.event.HeadersKind.TheVariants as headers;
ghost use Rattle.wtp_webtransport.specs.Events.{Opened, Joins, Joined, Settings, GoAway, Headers, SessionRequested, SessionClosed, Draining, StreamData, End};
ghost use Rattle.wtp_webtransport.specs.Joining.{takes, after_datagram, joins};
ghost use Rattle.wtp_webtransport.specs.Receiving.{Outcome, Receives, last};
ghost use Rattle.wtp_webtransport.specs.Said.{said};
ghost use Rattle.wtp_webtransport.specs.Sessions.{allows_sessions};
ghost use Rattle.wtp_webtransport.specs.Streams.{stream_of, request_stream, session_stream, with_streams, with_frames, with_part, answered};
ghost use Rattle.wtp_pairs.specs.Encoded.{noted_in, need_of, needed_by, IsReadable, IsAhead, IsEncodedRead, IsUnderWay};
ghost use Rattle.wtp_pairs.specs.Messages.{Agrees, IsWithin, IsSectionRead, IsDataRead, IsContentRead, IsSession, IsMessage, after_frame, response_told, request_opened};
ghost use Rattle.wtp_pairs.specs.Reads.{IsGoing, IsReadAs, IsControlRead, joining_stream, after_values};

/// A datagram that is sent for a session comes with its ID and exactly its payload, and changes nothing
/// (RFC 9297, section 2.1).
pub fn datagrams_are_received()
    ensures taken { (c : Connection) (id : ℕ) (payload : List ℕ) → IsGoing c
        → c.streams.endpoint.datagrams ≡ true → id < 2 ^ 62 → id % 4 ≡ 0
        → takes c (datagram_head id ++ payload) ≡ Ok (Some (id, payload)) }
    ensures kept { (c : Connection) (id : ℕ) (payload : List ℕ) → IsGoing c
        → c.streams.endpoint.datagrams ≡ true → id < 2 ^ 62
        → after_datagram c (datagram_head id ++ payload) ≡ c }
{}

/// The first bytes that are sent on a stream of a session name it; once the session is open the stream is
/// joined with it, and then gives exactly the bytes that were sent, in the pieces that came, and its end
/// (draft-ietf-webtrans-http3-02, section 4).
pub fn session_streams_are_received()
    ensures unidirectional { (limit id : ℕ) (c : Connection) → IsGoing c
        → c.streams.endpoint.webtransport ≡ true → id < 2 ^ 62 → id % 4 ≡ 0
        → IsReadAs limit c (stream_of frames.Uni) (uni_head id) (Joins id) c (joining_stream id) }
    ensures bidirectional { (limit id : ℕ) (c : Connection) → IsGoing c
        → c.streams.endpoint.webtransport ≡ true → id < 2 ^ 62 → id % 4 ≡ 0
        → IsReadAs limit c (stream_of frames.Bi) (bi_head id) (Joins id) c (joining_stream id) }
    ensures joined { (id : ℕ) (c : Connection) → IsGoing c
        → joins c (joining_stream id) Open ≡ (Joined id, c, session_stream id) }
    ensures bytes { (limit id : ℕ) (c : Connection) (bytes : List ℕ) (fin : Bool) (o : Outcome)
        → IsGoing c → 0 < length bytes → Receives limit c (session_stream id) bytes fin o
        → o ≡ (length bytes, StreamData bytes, c, session_stream id) }
    ensures end { (limit id : ℕ) (c : Connection) (o : Outcome) → IsGoing c
        → Receives limit c (session_stream id) [] true o
        → o ≡ last c (with_frames (session_stream id) frames.Over) End 0 }
{}

/// What is sent on the control stream comes as it was meant: its type, SETTINGS with the values that their
/// identifiers define (`wtp_connection::laws::valid_settings_are_read`), and each GOAWAY with its ID. The
/// receiver goes on with the sender (RFC 9114, sections 5.2, 6.2.1 and 7.2.4).
pub fn control_streams_are_received()
    ensures opened { (limit : ℕ) (c : Connection) → IsGoing c → c.streams.control ≡ false
        → IsReadAs limit c (stream_of frames.Uni) (shortest 0x00) (Opened «for».Control)
        (with_streams c (with_control c.streams))
        (stream_of (frames.Frames (control_reader c.streams.endpoint) false)) }
    ensures start { (e : Endpoint)
        → IsControlRead e false None (stream_of (frames.Frames (control_reader e) false)) }
    ensures settings { (limit : ℕ) (e : Endpoint) (old new : ControlSending) (settings : List (ℕ × ℕ))
        (v : PeerSettings) (c : Connection) (s : Stream) → IsGoing c
        → IsControlRead e old.settled old.goaway s → after_settings old settings ≡ Ok new
        → received_settings c.streams (settings_wire settings) ≡ Ok v
        → (t : Stream) × IsReadAs limit c s (wire (SettingsOf (settings_wire settings)))
        (Settings v (settings_wire settings)) (after_values c v) t
        × IsControlRead e new.settled new.goaway t }
    ensures goaway { (limit : ℕ) (e : Endpoint) (old new : ControlSending) (id : ℕ) (c : Connection)
        (s : Stream) → IsGoing c → e.side ≡ old.to → id < 2 ^ 62
        → IsControlRead e old.settled old.goaway s → after_goaway old id ≡ Ok new
        → (t : Stream) × IsReadAs limit c s (goaway_bytes id) (GoAway id) (record c { goaway = Some id }) t
        × IsControlRead e new.settled new.goaway t }
{}

/// The stream of a message agrees with what is sent on it from its start: at a server once its first byte
/// came, at a client once the request was sent. HEADERS within the limits of the receiver then come with
/// exactly their fields, and the stream agrees again (RFC 9114, sections 4.1 and 4.4):
///
/// - `request`: those of a request that is no CONNECT; `session`: those of a request for a session, which the
///   settings of both ends allow; `connect`: those of any other CONNECT request.
/// - `accepted`: both ends open the tunnel or the session, by an answer with a 2xx status.
/// - `interim` and `response`: those of a response with this status.
/// - `trailers`: those at the end of a message.
pub fn sections_are_received()
    ensures opened { (limit : ℕ) (c : Connection) (fields : List Field) (a b : List ℕ) (fin : Bool)
        (o : Outcome) → IsGoing c → c.streams.endpoint.side ≡ Server → 0 < length a
        → (more : List ℕ) → a ++ b ≡ headers_wire fields ++ more
        → Receives limit c (stream_of frames.Bi) a fin o
        → o ≡ (0, Opened «for».Message, c, request_opened c) }
    ensures asked { (c : Connection) (id : ℕ) (peer : Peer)
        → Agrees c.streams.endpoint (sending_of id (role.Request c.extended) peer) (request_opened c) }
    ensures answered { (e : Endpoint) (a : Asked) (id : ℕ) (peer : Peer)
        → Agrees e (sending_of id (role.Response a) peer) (request_stream e a) }
    ensures request { (limit : ℕ) (e : Endpoint) (c : Connection) (old new : Sending)
        (fields : List Field) (t : Stream) (extended : Bool) → IsGoing c → IsWithin e limit fields
        → Agrees e old t → old.role ≡ role.Request extended → SendsHead old fields new
        → is_connect fields ≡ false
        → (u : Stream) × IsSectionRead limit c t (headers_wire fields) (Headers headers.Request fields) c u
        × Agrees e new u }
    ensures session { (limit : ℕ) (e : Endpoint) (c : Connection) (old new : Sending)
        (fields : List Field) (t : Stream) (extended : Bool) → IsGoing c → IsWithin e limit fields
        → Agrees e old t → old.role ≡ role.Request extended → SendsHead old fields new
        → is_connect fields ≡ true → asks_for_session fields ≡ true → allows_sessions c ≡ true
        → (u : Stream) × IsSectionRead limit c t (headers_wire fields) (SessionRequested fields) c u
        × Agrees e new u }
    ensures connect { (limit : ℕ) (e : Endpoint) (c : Connection) (old new : Sending)
        (fields : List Field) (t : Stream) (extended : Bool) → IsGoing c → IsWithin e limit fields
        → Agrees e old t → old.role ≡ role.Request extended → SendsHead old fields new
        → is_connect fields ≡ true → asks_for_session fields ≡ false
        → (u : Stream) × IsSectionRead limit c t (headers_wire fields) (Headers headers.Request fields) c u
        × Agrees e new u }
    ensures accepted { (e : Endpoint) (old new : Sending) (t : Stream) (session : Bool) (status : ℕ)
        → Agrees e old t → old.place ≡ sent.Connecting session → placed old (opens old.place) ≡ Ok new
        → is_success (Some status) ≡ true → Agrees e new (answered t status) }
    ensures interim { (limit : ℕ) (e : Endpoint) (c : Connection) (old new : Sending)
        (fields : List Field) (t : Stream) (a : Asked) (status k : ℕ) → IsGoing c
        → IsWithin e limit fields → e.side ≡ Client → Agrees e old t → old.role ≡ role.Response a
        → SendsHead old fields new → status_of fields ≡ Some status → new.place ≡ sent.Head k
        → (u : Stream) × IsSectionRead limit c t (headers_wire fields)
        (Headers (headers.Interim status) fields) c u × Agrees e new u }
    ensures response { (limit : ℕ) (e : Endpoint) (c : Connection) (old new : Sending)
        (fields : List Field) (t : Stream) (a : Asked) (status : ℕ) → IsGoing c
        → IsWithin e limit fields → Agrees e old t → old.role ≡ role.Response a
        → SendsHead old fields new → status_of fields ≡ Some status → is_head new.place ≡ false
        → (u : Stream) × IsSectionRead limit c t (headers_wire fields)
        (response_told a (is_success (Some status)) status fields) c u × Agrees e new u }
    ensures trailers { (limit : ℕ) (e : Endpoint) (c : Connection) (old new : Sending)
        (fields : List Field) (t : Stream) → IsGoing c → IsWithin e limit fields → Agrees e old t
        → SendsTrailers old fields new
        → (u : Stream) × IsSectionRead limit c t (headers_wire fields) (Headers headers.Trailers fields) c u
        × Agrees e new u }
{}

/// HEADERS whose section an encoder wrote come with exactly their fields, as those of
/// [`sections_are_received`], once the table of the receiver has the insertions that the section needs, and
/// before that they wait. The receiver notes how many a section that it read needed, and is to acknowledge
/// it; of one that needs none it notes nothing (RFC 9204, sections 2.1.2, 2.2 and 4.4.1).
///
/// `readable` and `ahead` say of which sections this is true: of each that is not acknowledged, as long as
/// the table follows that of the encoder, however far both went on. The other clauses are those of
/// [`sections_are_received`], for such sections.
pub fn encoded_sections_are_received()
    ensures readable { (limit stream : ℕ) (e : Endpoint) (c : Connection) (d : Decoder)
        (fields : List Field) (old new : State) (before after section : List ℕ)
        (encoded : IsEncoded stream fields old new before after section) (now : Encoder)
        → c.decoder ≡ Some d → IsUnderWay stream fields old new before after section encoded now d.table
        → needed_by stream fields old new before after section encoded ≤ insert_count d.table
        → length section ≤ e.max_section → list_size fields ≤ limit
        → IsReadable e limit c section fields
        (need_of (needed_by stream fields old new before after section encoded)) }
    ensures ahead { (stream : ℕ) (e : Endpoint) (c : Connection) (d : Decoder)
        (fields : List Field) (old new : State) (before after section : List ℕ)
        (encoded : IsEncoded stream fields old new before after section) (now : Encoder)
        → c.decoder ≡ Some d → IsUnderWay stream fields old new before after section encoded now d.table
        → insert_count d.table < needed_by stream fields old new before after section encoded
        → length section ≤ e.max_section
        → IsAhead e c section (needed_by stream fields old new before after section encoded) }
    ensures request { (limit : ℕ) (e : Endpoint) (c : Connection) (old new : Sending)
        (section : List ℕ) (fields : List Field) (need : Option ℕ) (t : Stream) (extended : Bool)
        → IsGoing c → IsReadable e limit c section fields need → Agrees e old t
        → old.role ≡ role.Request extended → SendsHeadAs section old fields new
        → is_connect fields ≡ false
        → (u : Stream) × IsEncodedRead e limit c t section (Headers headers.Request fields) (noted_in need c) u × Agrees e new u }
    ensures session { (limit : ℕ) (e : Endpoint) (c : Connection) (old new : Sending)
        (section : List ℕ) (fields : List Field) (need : Option ℕ) (t : Stream) (extended : Bool)
        → IsGoing c → IsReadable e limit c section fields need → Agrees e old t
        → old.role ≡ role.Request extended → SendsHeadAs section old fields new
        → is_connect fields ≡ true → asks_for_session fields ≡ true → allows_sessions c ≡ true
        → (u : Stream) × IsEncodedRead e limit c t section (SessionRequested fields)
        (noted_in need c) u × Agrees e new u }
    ensures connect { (limit : ℕ) (e : Endpoint) (c : Connection) (old new : Sending)
        (section : List ℕ) (fields : List Field) (need : Option ℕ) (t : Stream) (extended : Bool)
        → IsGoing c → IsReadable e limit c section fields need → Agrees e old t
        → old.role ≡ role.Request extended → SendsHeadAs section old fields new
        → is_connect fields ≡ true → asks_for_session fields ≡ false
        → (u : Stream) × IsEncodedRead e limit c t section (Headers headers.Request fields) (noted_in need c) u × Agrees e new u }
    ensures interim { (limit : ℕ) (e : Endpoint) (c : Connection) (old new : Sending)
        (section : List ℕ) (fields : List Field) (need : Option ℕ) (t : Stream) (a : Asked)
        (status k : ℕ) → IsGoing c → IsReadable e limit c section fields need → e.side ≡ Client
        → Agrees e old t → old.role ≡ role.Response a → SendsHeadAs section old fields new
        → status_of fields ≡ Some status → new.place ≡ sent.Head k
        → (u : Stream) × IsEncodedRead e limit c t section (Headers (headers.Interim status) fields) (noted_in need c) u × Agrees e new u }
    ensures response { (limit : ℕ) (e : Endpoint) (c : Connection) (old new : Sending)
        (section : List ℕ) (fields : List Field) (need : Option ℕ) (t : Stream) (a : Asked)
        (status : ℕ) → IsGoing c → IsReadable e limit c section fields need → Agrees e old t
        → old.role ≡ role.Response a → SendsHeadAs section old fields new
        → status_of fields ≡ Some status → is_head new.place ≡ false
        → (u : Stream) × IsEncodedRead e limit c t section (response_told a (is_success (Some status)) status fields) (noted_in need c) u
        × Agrees e new u }
    ensures trailers { (limit : ℕ) (e : Endpoint) (c : Connection) (old new : Sending)
        (section : List ℕ) (fields : List Field) (need : Option ℕ) (t : Stream) → IsGoing c
        → IsReadable e limit c section fields need → Agrees e old t
        → SendsTrailersAs section old fields new
        → (u : Stream) × IsEncodedRead e limit c t section (Headers headers.Trailers fields) (noted_in need c) u × Agrees e new u }
{}

/// The content of a message comes byte by byte as it was sent, in pieces of at least a byte, and after the
/// last byte or the trailers the end (RFC 9114, sections 4.1 and 7.2.1):
///
/// - `data`: the head of a DATA frame, with or without bytes of its payload.
/// - `bytes`: bytes of the payload.
/// - `end`: no bytes, and the end of the stream.
/// - `tunnel_data`, `tunnel_bytes` and `tunnel_end`: the same in a tunnel.
pub fn content_is_received()
    ensures data { (limit : ℕ) (e : Endpoint) (c : Connection) (old new : Sending) (n : ℕ) (t : Stream)
        → IsGoing c → Agrees e old t → old.place ≡ sent.Content → after_data old n ≡ Ok new
        → IsDataRead limit e c t n new }
    ensures bytes { (limit : ℕ) (e : Endpoint) (c : Connection) (s : Sending) (t : Stream) → IsGoing c
        → Agrees e s t → s.place ≡ sent.Content → 0 < s.owed → IsContentRead limit e c t s }
    ensures end { (limit : ℕ) (e : Endpoint) (c : Connection) (old new : Sending) (t : Stream) (o : Outcome)
        → IsGoing c → Agrees e old t → IsMessage old.place → after_end old ≡ Ok new
        → Receives limit c t [] true o → o ≡ last c (with_frames t frames.Over) End 0 }
    ensures tunnel_data { (limit : ℕ) (e : Endpoint) (c : Connection) (old new : Sending) (n : ℕ)
        (t : Stream) → IsGoing c → Agrees e old t → old.place ≡ sent.Tunnel → after_data old n ≡ Ok new
        → IsDataRead limit e c t n new }
    ensures tunnel_bytes { (limit : ℕ) (e : Endpoint) (c : Connection) (s : Sending) (t : Stream)
        → IsGoing c → Agrees e s t → s.place ≡ sent.Tunnel → 0 < s.owed → IsContentRead limit e c t s }
    ensures tunnel_end { (limit : ℕ) (e : Endpoint) (c : Connection) (old new : Sending) (t : Stream)
        (o : Outcome) → IsGoing c → Agrees e old t → old.place ≡ sent.Tunnel → after_end old ≡ Ok new
        → Receives limit c t [] true o → o ≡ last c (with_frames t frames.Over) End 0 }
{}

/// What is sent of an open session on its own stream is said of it at the other end, whatever follows and
/// however it is cut: after CLOSE `SessionClosed` with its code and its reason, and nothing else; after DRAIN
/// `Draining`, and then what follows. `wtp_webtransport::laws::sessions_may_be_cut` says that the calls on
/// these bytes return exactly what `said` has. The end without CLOSE closes it with code 0 and no reason
/// (draft-ietf-webtrans-http3-02, section 5).
pub fn closes_are_received()
    ensures agrees { (e : Endpoint) (s : Sending) (t : Stream) → Agrees e s t → s.place ≡ sent.Session
        → IsSession e t }
    ensures end { (limit : ℕ) (e : Endpoint) (c : Connection) (old new : Sending) (t : Stream) (o : Outcome)
        → IsGoing c → Agrees e old t → old.place ≡ sent.Session → after_end old ≡ Ok new
        → Receives limit c t [] true o
        → o ≡ (0, SessionClosed (0, []), c, with_part (with_frames t frames.Over) part.Ending) }
    ensures close { (end : Bool) (e : Endpoint) (c : Connection) (s : Stream) (code : ℕ)
        (reason more : List ℕ) → IsSession e s → c.streams.over ≡ false → code < 2 ^ 32
        → length reason ≤ 1024 → IsUtf8 reason
        → (said end 0 c s (close_data code reason ++ more)).told ≡ SessionClosed (code, reason) ∷ [] }
    ensures drain { (end : Bool) (e : Endpoint) (c : Connection) (s : Stream) (more : List ℕ)
        (at : IsSession e s) → c.streams.over ≡ false
        → (said end 0 c s (drain_wire ++ more)).told ≡ Draining ∷ (said end 0 c (after_frame e s at) more).told }
    ensures open { (e : Endpoint) (s : Stream) (at : IsSession e s) → IsSession e (after_frame e s at) }
{}
