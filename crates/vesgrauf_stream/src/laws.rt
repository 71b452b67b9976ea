//! Facts about the bytes of a stream, to cite in proofs.
ghost use Rattle.std.specs.Prelude.{◌≡◌, ◌++◌, ℕ, Bool, List, [], ◌∷◌, false, true, drop};
ghost use Rattle.wtp_qpack.specs.Field.{Field};
ghost use Rattle.wtp_sending.specs.declared.peer.Peer.{Peer};
ghost use Rattle.wtp_frames.specs.declared.endpoint.Endpoint.{Endpoint};
ghost use Rattle.wtp_frames.specs.declared.reader.Reader.{Reader};
ghost use Rattle.wtp_webtransport.specs.declared.connection.Connection.{Connection};
ghost use Rattle.vesgrauf_queue.specs.declared.config.QueueConfig.{QueueConfig};
ghost use Rattle.vesgrauf_queue.specs.Runs.{put, was_reset};
ghost use Rattle.vesgrauf_queue.specs.State.{waiting};
ghost use Rattle.vesgrauf_queue.specs.Steps.{IsNew};
ghost use Rattle.vesgrauf_stream.specs.declared.bytes.Chunk.{Chunk};
ghost use Rattle.vesgrauf_stream.specs.declared.reading.Found.{Found};
ghost use Rattle.vesgrauf_stream.specs.declared.reading.Reading.{Reading};
ghost use Rattle.vesgrauf_stream.specs.Reading.{Hears, Keeps, unread, is_ended};
ghost use Rattle.vesgrauf_stream.specs.declared.tools.Tools.{Tools};
ghost use Rattle.vesgrauf_stream.specs.declared.writing.Writing.{Writing};
ghost use Rattle.vesgrauf_stream.specs.Headers.{request_at, response_at, SendsHeaders, SendsTrailers};
ghost use Rattle.vesgrauf_stream.specs.ReadBack.{IsReadTo, IsReadBack, PlainCalls, AreReadBack};
ghost use Rattle.vesgrauf_stream.specs.Said.{Call, Says, Ends as End, Headers, Trailers, Drain, Close, Bytes, Calls, CallsAll, content_of, all_steps, all_wire, said_in, has_end};
ghost use Rattle.vesgrauf_stream.specs.Turns.{Turn, Reads, Unread, Leads, bytes_in, read_in, end_in};
ghost use Rattle.vesgrauf_stream.specs.Writing.{Sends, Ends, Pushes, Drains, Closes};

/// No byte of a stream is lost, given twice or out of order, however its bytes are cut: what is not read yet are
/// all bytes that came without those that were read, and the stream ends after them exactly if its end came.
pub fn no_byte_is_lost()
    ensures bytes { (turns : List Turn) (v : Unread) → Leads turns ([], false) v
        → v.0 ≡ drop (read_in turns) (bytes_in turns) }
    ensures end { (turns : List Turn) (v : Unread) → Leads turns ([], false) v → v.1 ≡ end_in turns }
{}

/// The calls of a [`Reading`](crate::reading::Reading) are such turns: `next` reads, and what is kept is still to
/// be read.
pub fn calls_are_turns()
    ensures next { (limit : ℕ) (c d : Connection) (r s : Reading) (input rest : Chunk) (found : Found)
        → Hears limit c r input found d s rest
        → (reach consumed : ℕ) × Leads (Reads reach consumed ∷ []) (unread r input, is_ended r input)
        (unread s rest, is_ended s rest) }
    ensures keep { (r s : Reading) (input rest : Chunk) → Keeps r input s rest
        → Leads [] (unread r input, is_ended r input) (unread s rest, is_ended s rest) }
{}

/// What is queued on a half is what was said on it, in order and nothing else: field sections in HEADERS frames, content
/// in DATA frames, capsules, and on a stream without messages the bytes as they are. Without a reset, the bytes that QUIC
/// took and those that wait are all of it; after one, they are a start of it.
pub fn what_is_said_is_queued()
    ensures whole { (config : QueueConfig) (calls : List Call) (w v : Writing)
        → IsNew config w.queue → CallsAll calls w v → was_reset (all_steps calls) ≡ false
        → all_wire calls ≡ put (all_steps calls) ++ waiting v.queue }
    ensures start { (config : QueueConfig) (calls : List Call) (w v : Writing)
        → IsNew config w.queue → CallsAll calls w v
        → (rest : List ℕ) × (all_wire calls ≡ (put (all_steps calls) ++ waiting v.queue) ++ rest) }
{}

/// After the end, or a reset, nothing is said.
pub fn nothing_is_said_after_the_end()
    ensures { (calls more : List Call) (w m v : Writing) → CallsAll calls w m → has_end calls ≡ true
        → CallsAll more m v → said_in more ≡ [] }
{}

/// What is said on a half with a message is read by the other end as it was meant, whatever follows: field sections,
/// content byte by byte, and capsules; and after the end the stream may end. Without interim responses the bytes of all
/// calls together give all of this, and nothing else.
pub fn what_is_said_is_read()
    ensures call { (e : Endpoint) (call : Call) (w v : Writing) (r : Reader) → IsReadTo e w.half r
        → Calls call w v → IsReadBack e call v.half r }
    ensures all { (e : Endpoint) (calls : List Call) (w v : Writing) (r : Reader) → IsReadTo e w.half r
        → PlainCalls calls w v → AreReadBack e calls v.half r }
{}

/// The calls of a [`Writing`](crate::writing::Writing) say this.
pub fn calls_say_something()
    ensures request { (id : ℕ) (peer : Peer) (fields : List Field) (fin : Bool) (t u : Tools) (w v : Writing)
        → SendsHeaders (request_at w id peer) fields fin t u w v
        → (section : List ℕ) × (room : Bool) × Calls (Says (Headers section) room fin) w v }
    ensures respond { (id : ℕ) (peer : Peer) (fields : List Field) (fin : Bool) (t u : Tools) (w v : Writing)
        → SendsHeaders (response_at w id peer) fields fin t u w v
        → (section : List ℕ) × (room : Bool) × Calls (Says (Headers section) room fin) w v }
    ensures send { (bytes : List ℕ) (fin room : Bool) (w v : Writing) → Sends bytes fin room w v
        → Calls (Says (content_of w.half bytes) room fin) w v }
    ensures trailers { (fields : List Field) (t u : Tools) (w v : Writing) → SendsTrailers fields t u w v
        → (section : List ℕ) × (room : Bool) × Calls (Says (Trailers section) room true) w v }
    ensures finish { (w v : Writing) → Ends w v → Calls End w v }
    ensures push { (bytes : List ℕ) (w v : Writing) → Pushes bytes w v
        → (room : Bool) × Calls (Says (Bytes bytes) room false) w v }
    ensures drain { (w v : Writing) → Drains w v → (room : Bool) × Calls (Says Drain room false) w v }
    ensures close { (code : ℕ) (reason : List ℕ) (w v : Writing) → Closes code reason w v
        → (room : Bool) × Calls (Says (Close code reason) room true) w v }
{}
