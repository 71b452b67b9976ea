//! Hashes of names and fields.

ghost use Rattle.std.specs.Prelude.{◌≡◌, ◌+◌, ◌*◌, ◌^◌};
ghost use Rattle.std.specs.Int.{w32, from_le_bytes};
ghost use Rattle.wtp_dynamic_encoder.specs.Hashing.{mixed, pushed, word_of, last_word, folded, hash_text, AreHashes};

/// The hashes of a name, and of a name and its value.
#[derive(Clone, Copy)]
pub(crate) struct Hashes {
    pub(crate) name: u64,
    pub(crate) field: u64,
}

/// Returns a state after one more word.
#[inline(always)]
#[tactic(auto, unfolding(crate::specs::Hashing::mixed))]
fn mix(state: u64, word: u64) -> u64
    ensures { result ≡ mixed state word }
{
    (state.rotate_left(5) ^ word).wrapping_mul(0x9e37_79b9_7f4a_7c15)
}

/// Appends a byte to a word.
#[inline(always)]
#[tactic(auto, unfolding(crate::specs::Hashing::pushed))]
fn push_byte(word: u64, byte: u8) -> u64
    ensures { result ≡ pushed word byte }
{
    word.wrapping_mul(256).wrapping_add(byte as u64)
}

/// Returns the hash of a state: of its high bits too, which depend on all words.
#[inline(always)]
#[tactic(auto, unfolding(crate::specs::Hashing::folded))]
fn fold(state: u64) -> u64
    ensures { result ≡ folded state }
{
    state ^ (state >> 32)
}

/// Returns the word of a text of fewer than four bytes.
#[tactic(auto, using(crate::proofs::Hashed::hash_steps))]
fn short_word(text: &[u8]) -> u64
    ensures { result ≡ word_of 0 text.now }
{
    let mut word = 0;
    for byte in text {
        word = push_byte(word, *byte);
    }
    word
}

/// Returns the word of a text of four to seven bytes, from its first four and its last four.
#[inline(always)]
fn joined_word(first: &[u8; 4], last: &[u8; 4]) -> u64
    ensures { result ≡ from_le_bytes w32 first.now * 2 ^ 32 + from_le_bytes w32 last.now }
{
    u32::from_le_bytes(*first) as u64 * 0x1_0000_0000 + u32::from_le_bytes(*last) as u64
}

/// Returns the last eight bytes of a text as a word, or those of a shorter one.
#[inline(always)]
fn last_word(text: &[u8]) -> u64
    ensures { result ≡ last_word text.now }
{
    match text.split_last_chunk::<8>() {
        Some((_, word)) => u64::from_le_bytes(*word),
        None => match (text.split_first_chunk::<4>(), text.split_last_chunk::<4>()) {
            (Some((first, _)), Some((_, last))) => joined_word(first, last),
            _ => short_word(text),
        },
    }
}

/// Returns the hash of a text, from a seed.
#[tactic(auto, using(crate::proofs::Hashed::hash_steps), unfolding(crate::specs::Hashing::hash_text))]
fn hash_text(seed: u64, text: &[u8]) -> u64
    ensures { result ≡ hash_text seed text.now }
{
    let mut state = mix(seed, text.len() as u64);
    let mut rest = text;
    while let Some((word, behind)) = rest.split_first_chunk::<8>() {
        state = mix(state, u64::from_le_bytes(*word));
        rest = behind;
    }
    fold(mix(state, last_word(text)))
}

impl Hashes {
    /// Returns the hashes of a field.
    pub(crate) fn of(name: &[u8], value: &[u8]) -> Self
        ensures { AreHashes result (name.now, value.now) }
    {
        let first = hash_text(0, name);
        Hashes {
            name: first,
            field: hash_text(first, value),
        }
    }
}
