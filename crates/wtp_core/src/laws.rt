//! Laws of the definitions and types that the contracts of this crate cite. The contract of each
//! function states one law.
ghost use Rattle.std.specs.Prelude.{◌≡◌, ℕ, ◌+◌, ◌-◌, ◌*◌, ◌/◌, ◌<◌, ◌≤◌, ◌^◌, ◌↔◌, List, ◌++◌, Some, length, drop, slice_index, fold, IsTrue, IsOk, OnOk, OnErr};
ghost use Rattle.std.specs.Int.{Width, byte_len};
ghost use Rattle.std.specs.Ordering.{nat_cmp};
ghost use Rattle.std.specs.Hash as hashed;
ghost use Rattle.wtp_core.specs.Reader.{IsRest};
ghost use Rattle.wtp_core.specs.Varint.{Encodes, width_of, number_at, shortest};

mod codes;

use crate::bytes::{BytesReader, EndOfBuffer, ParentReader};
use crate::ids::{QStreamId, SessionId, StatusCode, StreamId};
use crate::varint::VarInt;
pub use codes::{
    application_and_back, application_codes, code_and_back, code_of_error, codes_have_numbers,
    scopes_agree,
};
use std::cmp::Ordering;
use std::hash::{Hash, Hasher};

/// An encoding at the start of the bytes is read as its number, whatever bytes follow.
pub fn encoding_is_read()
    ensures { (v : ℕ) (s rest : List ℕ) → Encodes v s → number_at (s ++ rest) ≡ Some (v, rest) }
{}

/// The bytes read as a number are an encoding of that number.
pub fn read_is_encoding()
    ensures { (v : ℕ) (bytes rest : List ℕ) → number_at bytes ≡ Some (v, rest)
        → (s : List ℕ) × Encodes v s × (bytes ≡ s ++ rest) }
{}

/// "The rest of" is reflexive and transitive: bytes are a suffix of themselves, and a suffix of a
/// suffix is a suffix.
pub fn rests_of_rests()
    ensures same { (bytes : List ℕ) → IsRest bytes bytes }
    ensures rest { (new mid old : List ℕ) → IsRest new mid → IsRest mid old → IsRest new old }
{}

/// The shortest encoding is a valid encoding. None is shorter, and no other one is equally short.
pub fn shortest_is_encoding()
    ensures encoding { (v : ℕ) → v < 2 ^ 62 → Encodes v (shortest v) }
    ensures least { (v : ℕ) (s : List ℕ) → Encodes v s → length (shortest v) ≤ length s }
    ensures only { (v : ℕ) (s : List ℕ) → Encodes v s → ((i : ℕ) → slice_index s i < 256)
        → length s ≡ length (shortest v) → s ≡ shortest v }
{}

/// The first byte of the shortest encoding determines its size, 1, 2, 4 or 8 bytes. Less two bits,
/// this is the smallest of these sizes that holds the number.
pub fn size_holds_the_number()
    ensures first { (v : ℕ) → v < 2 ^ 62
        → byte_len (width_of (slice_index (shortest v) 0)) ≡ length (shortest v) }
    ensures holds { (v : ℕ) → v < 2 ^ 62 → v < 2 ^ (8 * length (shortest v) - 2) }
    ensures least { (v : ℕ) (w : Width) → v < 2 ^ (8 * byte_len w - 2)
        → length (shortest v) ≤ byte_len w }
{}

/// Variable-length integers compare like their values.
pub fn varints_compare(a: VarInt, b: VarInt) -> (bool, Ordering)
    ensures equal { IsTrue result.0 ↔ (a ≡ b) }
    ensures order { result.1 ≡ nat_cmp a b }
{
    (a == b, a.cmp(&b))
}

/// A variable-length integer hashes like its value.
pub fn varints_hash<H: Hasher>(value: VarInt, state: &mut H)
    ensures { state.new ≡ fold H.write state.old (hashed.u64 value) }
{
    value.hash(state);
}

/// Stream IDs compare like their numbers.
pub fn streams_compare(a: StreamId, b: StreamId) -> (bool, Ordering)
    ensures equal { IsTrue result.0 ↔ (a ≡ b) }
    ensures order { result.1 ≡ nat_cmp a b }
{
    (a == b, a.cmp(&b))
}

/// A stream ID hashes like its number.
pub fn streams_hash<H: Hasher>(value: StreamId, state: &mut H)
    ensures { state.new ≡ fold H.write state.old (hashed.u64 value) }
{
    value.hash(state);
}

/// Session IDs compare like their numbers.
pub fn sessions_compare(a: SessionId, b: SessionId) -> (bool, Ordering)
    ensures equal { IsTrue result.0 ↔ (a ≡ b) }
    ensures order { result.1 ≡ nat_cmp a b }
{
    (a == b, a.cmp(&b))
}

/// A session ID hashes like its number.
pub fn sessions_hash<H: Hasher>(value: SessionId, state: &mut H)
    ensures { state.new ≡ fold H.write state.old (hashed.u64 value) }
{
    value.hash(state);
}

/// Quarter stream IDs compare like their numbers.
pub fn quarters_compare(a: QStreamId, b: QStreamId) -> (bool, Ordering)
    ensures equal { IsTrue result.0 ↔ (a ≡ b) }
    ensures order { result.1 ≡ nat_cmp a b }
{
    (a == b, a.cmp(&b))
}

/// A quarter stream ID hashes like its number.
pub fn quarters_hash<H: Hasher>(value: QStreamId, state: &mut H)
    ensures { state.new ≡ fold H.write state.old (hashed.u64 value) }
{
    value.hash(state);
}

/// Status codes compare like their numbers.
pub fn statuses_compare(a: StatusCode, b: StatusCode) -> (bool, Ordering)
    ensures equal { IsTrue result.0 ↔ (a ≡ b) }
    ensures order { result.1 ≡ nat_cmp a b }
{
    (a == b, a.cmp(&b))
}

/// A status code hashes like its number.
pub fn statuses_hash<H: Hasher>(value: StatusCode, state: &mut H)
    ensures { state.new ≡ fold H.write state.old (hashed.u16 value) }
{
    value.hash(state);
}

/// Converting a session ID to a quarter stream ID and back returns the session ID.
pub fn quarter_and_back(session: SessionId) -> SessionId
    ensures { result ≡ session }
{
    QStreamId::from_session_id(session).into_session_id()
}

/// Converting a quarter stream ID to a session ID and back returns the quarter stream ID.
pub fn session_and_back(quarter: QStreamId) -> QStreamId
    ensures { result ≡ quarter }
{
    QStreamId::from_session_id(quarter.into_session_id())
}

/// Dropping a child leaves its parent unchanged, whatever the child has read.
pub fn dropped_child_moves_nothing<'a, P: ParentReader<'a>>(reader: &mut P, len: usize)
    ensures { reader.new ≡ reader.old }
{
    let mut child = reader.child();
    let _ = child.get_varint();
    let _ = child.skip(len);
}

/// Committing a child that read `len` bytes moves its parent by `len` bytes. A child that could not
/// read them leaves its parent unchanged.
pub fn committed_child_moves_parent<'a, P: ParentReader<'a>>(
    reader: &mut P,
    len: usize,
) -> Result<(), EndOfBuffer>
    ensures room { IsOk result ↔ (len ≤ length (P.behind reader.old)) }
    ensures ok { OnOk result (P.behind reader.new ≡ drop len (P.behind reader.old)) }
    ensures err { OnErr result (reader.new ≡ reader.old) }
    ensures whole { P.whole reader.new ≡ P.whole reader.old }
{
    let mut child = reader.child();
    match child.skip(len) {
        Ok(()) => {
            child.commit();
            Ok(())
        }
        Err(fault) => Err(fault),
    }
}
