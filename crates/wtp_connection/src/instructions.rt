//! The streams of QPACK where the own settings allow no dynamic table (RFC 9204, sections 3.2.3,
//! 4.3 and 4.4).
ghost use Rattle.std.specs.Prelude.{◌≡◌};
ghost use Rattle.std.specs.List.{list_all};
ghost use Rattle.wtp_connection.specs.Instructions.{sets_zero, after_first, after_group as after_group_is, next_weight as next_weight_is, after_byte as after_byte_is, after_bytes};

/// Set Dynamic Table Capacity with the capacity 0 (RFC 9204, section 4.3.1).
const SET_CAPACITY_0: u8 = 0x20;

/// The largest ID of a stream (RFC 9000, section 2.1).
const MAX_STREAM_ID: u64 = 0x3fff_ffff_ffff_ffff;

/// From this weight on, the weight of the next group is more than any ID of a stream.
const MAX_WEIGHT: u64 = 1 << 57;

/// How far the decoder stream of QPACK went.
#[derive(Clone, Copy)]
pub enum DecoderPlace {
    /// Before an instruction.
    Between,
    /// Within the stream ID of a Stream Cancellation: the sum of its bytes so far, and what the
    /// number in the next byte is multiplied with.
    Within(u64, u64),
}

/// Returns whether the bytes of the encoder stream do nothing but set the capacity of the dynamic
/// table to 0.
pub(crate) fn sets_nothing(bytes: &[u8]) -> bool
    ensures { result ≡ list_all sets_zero bytes.now }
{
    for byte in bytes {
        if *byte != SET_CAPACITY_0 {
            return false;
        }
    }
    true
}

impl DecoderPlace {
    /// Returns the place after these bytes, or `None` if one of their instructions is no Stream
    /// Cancellation, or has a stream ID of 2^62 or more.
    pub(crate) fn after(self, bytes: &[u8]) -> Option<Self>
        ensures { result ≡ after_bytes self bytes.now }
    {
        let mut place = self;
        for byte in bytes {
            match place.after_byte(*byte) {
                None => return None,
                Some(next) => place = next,
            }
        }
        Some(place)
    }

    // Returns the place after one more byte.
    fn after_byte(self, byte: u8) -> Option<Self>
        ensures { result ≡ after_byte_is self byte }
    {
        match self {
            DecoderPlace::Between => first_byte(byte),
            DecoderPlace::Within(sum, weight) => after_group(sum, weight, byte),
        }
    }
}

// Returns the place after the first byte of an instruction.
fn first_byte(byte: u8) -> Option<DecoderPlace>
    ensures { result ≡ after_first byte }
{
    if byte / 64 != 1 {
        return None;
    }
    if byte % 64 == 63 {
        Some(DecoderPlace::Within(63, 1))
    } else {
        Some(DecoderPlace::Between)
    }
}

// Returns the place after one more group of seven bits.
fn after_group(sum: u64, weight: u64, byte: u8) -> Option<DecoderPlace>
    ensures { result ≡ after_group_is sum weight byte }
{
    let value = u64::from(byte % 128).checked_mul(weight)?.checked_add(sum)?;
    if value > MAX_STREAM_ID {
        return None;
    }
    if byte < 128 {
        Some(DecoderPlace::Between)
    } else {
        Some(DecoderPlace::Within(value, next_weight(weight)))
    }
}

// Returns the weight of the group after one of this weight.
fn next_weight(weight: u64) -> u64
    ensures { result ≡ next_weight_is weight }
{
    if weight < MAX_WEIGHT {
        weight * 128
    } else {
        weight
    }
}
