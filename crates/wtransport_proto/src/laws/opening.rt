//! Laws of the frame that opens a bidirectional stream of the peer.
ghost use Rattle.std.specs.Prelude.{◌≡◌, ◌≢◌, ℕ, List, Bool, true, false, Some};
ghost use Rattle.wtp_core.specs.declared.error.ErrorCode.{ErrorCode};
ghost use Rattle.wtp_core.specs.declared.error.ErrorCode.TheVariants.{FrameUnexpected, Id, ExcessiveLoad};
ghost use Rattle.wtp_wire.specs.Content.{Content, WebTransportOf, DataOf, HeadersOf, ExerciseOf, kind_in};
ghost use Rattle.wtp_wire.specs.Front.{Framed, Unknown, BadId, TooBig, Short};
ghost use Rattle.wtp_wire.specs.Held.{Held, new_held, front_held};
ghost use Rattle.wtp_wire.specs.Rule.{RemoteBi, rule};
ghost use Rattle.wtp_wire.specs.Run.{Tail, MayGoOn, H3, run};
ghost use Rattle.wtransport_proto.specs.Accepting.{Session, Request, Nothing, opening};
ghost use Rattle.wtransport_proto.specs.HeldRun.{stop_of, count_held};

/// What opens a stream, given by the first frame of the bytes held and ahead. A WebTransport frame
/// opens the stream if it is the first one, and a HEADERS frame in any position. Frames of reserved
/// and unknown types are skipped. A DATA frame, a frame that the stream does not allow, an invalid
/// session ID, a payload that is too big and too few bytes open nothing.
pub fn opening_by_front()
    ensures session { (h : Held) (ahead rest : List ℕ) (tail : Tail) (id : ℕ)
        → front_held h ahead ≡ Framed (WebTransportOf id) rest
        → opening true h ahead tail ≡ Session id rest }
    ensures request { (first : Bool) (h : Held) (ahead rest payload : List ℕ) (tail : Tail)
        → front_held h ahead ≡ Framed (HeadersOf payload) rest
        → opening first h ahead tail ≡ Request payload (run RemoteBi false rest tail) }
    ensures reserved { (first : Bool) (h : Held) (ahead rest payload : List ℕ) (tail : Tail)
        (number : ℕ)
        → tail ≢ MayGoOn → front_held h ahead ≡ Framed (ExerciseOf number payload) rest
        → opening first h ahead tail ≡ opening false new_held rest tail }
    ensures unknown { (first : Bool) (h : Held) (ahead rest : List ℕ) (tail : Tail)
        → tail ≢ MayGoOn → front_held h ahead ≡ Unknown rest
        → opening first h ahead tail ≡ opening first new_held rest tail }
    ensures data_first { (first : Bool) (h : Held) (ahead rest payload : List ℕ) (tail : Tail)
        → front_held h ahead ≡ Framed (DataOf payload) rest
        → opening first h ahead tail ≡ Nothing (H3 FrameUnexpected) }
    ensures refused { (first : Bool) (h : Held) (ahead rest : List ℕ) (tail : Tail) (f : Content)
        (code : ErrorCode)
        → front_held h ahead ≡ Framed f rest → rule RemoteBi first (kind_in f) ≡ Some code
        → opening first h ahead tail ≡ Nothing (H3 code) }
    ensures bad_id { (first : Bool) (h : Held) (ahead rest : List ℕ) (tail : Tail)
        → front_held h ahead ≡ BadId rest → opening first h ahead tail ≡ Nothing (H3 Id) }
    ensures too_big { (first : Bool) (h : Held) (ahead rest : List ℕ) (tail : Tail)
        → front_held h ahead ≡ TooBig rest → opening first h ahead tail
        ≡ Nothing (H3 ExcessiveLoad) }
    ensures short { (first : Bool) (h : Held) (ahead : List ℕ) (tail : Tail)
        → front_held h ahead ≡ Short
        → opening first h ahead tail ≡ Nothing (stop_of (count_held h ahead) tail) }
{}
