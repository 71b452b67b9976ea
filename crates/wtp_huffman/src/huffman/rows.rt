//! The code words by length (RFC 7541, Appendix B), for decoding.
ghost use Rattle.std.specs.Prelude.{◌≡◌, ◌<◌};
ghost use Rattle.wtp_huffman.specs.HuffmanRows.{row_at, symbol_at};

/// The code words of one length.
#[derive(Clone, Copy)]
pub struct Row {
    /// The length of each word in bits.
    pub bits: u32,
    /// The first word as a number.
    pub first: u32,
    /// The number of symbols that have shorter words.
    pub skipped: usize,
    /// The last word plus one, followed by zeros up to the length of a window.
    pub limit: u32,
}

/// The 21 lengths, shortest first, so that the limits increase.
pub static ROWS: [Row; 21] = [
    Row {
        bits: 5,
        first: 0x0,
        skipped: 0,
        limit: 0x14000000,
    },
    Row {
        bits: 6,
        first: 0x14,
        skipped: 10,
        limit: 0x2e000000,
    },
    Row {
        bits: 7,
        first: 0x5c,
        skipped: 36,
        limit: 0x3e000000,
    },
    Row {
        bits: 8,
        first: 0xf8,
        skipped: 68,
        limit: 0x3f800000,
    },
    Row {
        bits: 10,
        first: 0x3f8,
        skipped: 74,
        limit: 0x3fd00000,
    },
    Row {
        bits: 11,
        first: 0x7fa,
        skipped: 79,
        limit: 0x3fe80000,
    },
    Row {
        bits: 12,
        first: 0xffa,
        skipped: 82,
        limit: 0x3ff00000,
    },
    Row {
        bits: 13,
        first: 0x1ff8,
        skipped: 84,
        limit: 0x3ffc0000,
    },
    Row {
        bits: 14,
        first: 0x3ffc,
        skipped: 90,
        limit: 0x3ffe0000,
    },
    Row {
        bits: 15,
        first: 0x7ffc,
        skipped: 92,
        limit: 0x3fff8000,
    },
    Row {
        bits: 19,
        first: 0x7fff0,
        skipped: 95,
        limit: 0x3fff9800,
    },
    Row {
        bits: 20,
        first: 0xfffe6,
        skipped: 98,
        limit: 0x3fffb800,
    },
    Row {
        bits: 21,
        first: 0x1fffdc,
        skipped: 106,
        limit: 0x3fffd200,
    },
    Row {
        bits: 22,
        first: 0x3fffd2,
        skipped: 119,
        limit: 0x3fffec00,
    },
    Row {
        bits: 23,
        first: 0x7fffd8,
        skipped: 145,
        limit: 0x3ffffa80,
    },
    Row {
        bits: 24,
        first: 0xffffea,
        skipped: 174,
        limit: 0x3ffffd80,
    },
    Row {
        bits: 25,
        first: 0x1ffffec,
        skipped: 186,
        limit: 0x3ffffe00,
    },
    Row {
        bits: 26,
        first: 0x3ffffe0,
        skipped: 190,
        limit: 0x3ffffef0,
    },
    Row {
        bits: 27,
        first: 0x7ffffde,
        skipped: 205,
        limit: 0x3fffff88,
    },
    Row {
        bits: 28,
        first: 0xfffffe2,
        skipped: 224,
        limit: 0x3ffffffc,
    },
    Row {
        bits: 30,
        first: 0x3ffffffc,
        skipped: 253,
        limit: 0x40000000,
    },
];

/// The length of the shortest word in bits.
pub const SHORTEST: usize = ROWS[0].bits as usize;

/// The length of the longest word in bits.
pub const LONGEST: u32 = ROWS[ROWS.len() - 1].bits;

/// The length of a window in bits: that of the longest word, so that each window begins with a
/// word.
pub const WINDOW: u32 = LONGEST;

/// The symbols in the order of their words; 256 is EOS.
pub static SYMBOLS: [u16; 257] = [
    48, 49, 50, 97, 99, 101, 105, 111, 115, 116, 32, 37, 45, 46, 47, 51, 52, 53, 54, 55, 56, 57,
    61, 65, 95, 98, 100, 102, 103, 104, 108, 109, 110, 112, 114, 117, 58, 66, 67, 68, 69, 70, 71,
    72, 73, 74, 75, 76, 77, 78, 79, 80, 81, 82, 83, 84, 85, 86, 87, 89, 106, 107, 113, 118, 119,
    120, 121, 122, 38, 42, 44, 59, 88, 90, 33, 34, 40, 41, 63, 39, 43, 124, 35, 62, 0, 36, 64, 91,
    93, 126, 94, 125, 60, 96, 123, 92, 195, 208, 128, 130, 131, 162, 184, 194, 224, 226, 153, 161,
    167, 172, 176, 177, 179, 209, 216, 217, 227, 229, 230, 129, 132, 133, 134, 136, 146, 154, 156,
    160, 163, 164, 169, 170, 173, 178, 181, 185, 186, 187, 189, 190, 196, 198, 228, 232, 233, 1,
    135, 137, 138, 139, 140, 141, 143, 147, 149, 150, 151, 152, 155, 157, 158, 165, 166, 168, 174,
    175, 180, 182, 183, 188, 191, 197, 231, 239, 9, 142, 144, 145, 148, 159, 171, 206, 215, 225,
    236, 237, 199, 207, 234, 235, 192, 193, 200, 201, 202, 205, 210, 213, 218, 219, 238, 240, 242,
    243, 255, 203, 204, 211, 212, 214, 221, 222, 223, 241, 244, 245, 246, 247, 248, 250, 251, 252,
    253, 254, 2, 3, 4, 5, 6, 7, 8, 11, 12, 14, 15, 16, 17, 18, 19, 20, 21, 23, 24, 25, 26, 27, 28,
    29, 30, 31, 127, 220, 249, 10, 13, 22, 256,
];

/// Returns the row at an index.
#[tactic(auto, unfolding(crate::specs::HuffmanRows::row_at))]
pub fn row_number(k: usize) -> Row
    requires { k < 21 }
    ensures { result ≡ row_at k }
{
    ROWS[k]
}

/// Returns the symbol at an index.
#[tactic(auto, unfolding(crate::specs::HuffmanRows::symbol_at))]
pub fn symbol_number(i: usize) -> u16
    requires { i < 257 }
    ensures { result ≡ symbol_at i }
{
    SYMBOLS[i]
}
