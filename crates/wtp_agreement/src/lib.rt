//! `wtp_frames` reads the HEADERS, DATA and SETTINGS frames that `wtp_wire` reads as the same frames,
//! where its rules allow them. There is no product code here.
#![tactic(auto)]

ghost use Rattle.std.specs.Prelude.{◌≡◌, ℕ, ◌<◌, ◌≤◌, Bool, false, true, List, [], ◌∷◌, map, None};
ghost use Rattle.wtp_wire.specs.Content.{PlainOf};
ghost use Rattle.wtp_wire.specs.Front.{Framed, front};
ghost use Rattle.wtp_wire.specs.declared.frame.kind.FrameKind.TheVariants as wire;
ghost use Rattle.wtp_frames.specs.declared.endpoint.Endpoint.{Endpoint};
ghost use Rattle.wtp_frames.specs.declared.frame_type.FrameType.TheVariants as kind;
ghost use Rattle.wtp_frames.specs.declared.reader.Place.TheVariants.{BeforeHeaders, Body, AfterTrailers};
ghost use Rattle.wtp_frames.specs.declared.reader.Place.TheVariants.{BeforeSettings, AfterSettings};
ghost use Rattle.wtp_frames.specs.Grammar.{count_data, HasRoom};
ghost use Rattle.wtp_frames.specs.Item.{Whole, Byte};
ghost use Rattle.wtp_frames.specs.Run.{preceded, run};
ghost use Rattle.wtp_frames.specs.Start.{between};

#[cfg(test)]
mod instances;

/// Where the wire grammar of `wtp_wire` has a HEADERS, DATA or SETTINGS frame first, and it may
/// come here, a reader whose limit is not below 4096 bytes gives it, and goes on with the bytes
/// after it. There are such bytes for each of the four, and the tests have some:
///
/// - The first HEADERS frame of a message, as `01 02 00 00`: it is given whole.
/// - A DATA frame after it, as `00 01 61`: each of its bytes is given.
/// - A HEADERS frame after it, as `01 01 d2`: these are the trailers, and no DATA frame may follow.
/// - The first frame of a control stream, as `04 02 33 01`: it is given whole.
pub fn run_goes_by_front()
    ensures headers { (e : Endpoint) (k : ℕ) (s : Bool) (n : ℕ) (bytes payload rest : List ℕ)
        → 4096 ≤ e.max_section → front bytes ≡ Framed (PlainOf wire.Headers payload) rest
        → run (between e k BeforeHeaders s n) bytes
        ≡ preceded (Whole kind.Headers payload ∷ []) (run (between e k Body false 0) rest) }
    ensures content { (e : Endpoint) (k : ℕ) (s : Bool) (n : ℕ) (bytes payload rest : List ℕ)
        → HasRoom n payload → front bytes ≡ Framed (PlainOf wire.Data payload) rest
        → run (between e k Body s n) bytes
        ≡ preceded (map Byte payload) (run (between e k Body true (count_data n payload)) rest) }
    ensures trailers { (e : Endpoint) (k : ℕ) (s : Bool) (n : ℕ) (bytes payload rest : List ℕ)
        → 4096 ≤ e.max_section → front bytes ≡ Framed (PlainOf wire.Headers payload) rest
        → run (between e k Body s n) bytes
        ≡ preceded (Whole kind.Headers payload ∷ []) (run (between e k AfterTrailers false 0) rest) }
    ensures settings { (e : Endpoint) (k : ℕ) (s : Bool) (n : ℕ) (bytes payload rest : List ℕ)
        → front bytes ≡ Framed (PlainOf wire.Settings payload) rest
        → run (between e k BeforeSettings s n) bytes
        ≡ preceded (Whole kind.Settings payload ∷ [])
        (run (between e k (AfterSettings None None) false 0) rest) }
{}
