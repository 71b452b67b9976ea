//! Laws of the definitions. The contract of each function states the law; its body is empty.
ghost use Rattle.std.specs.Prelude.{◌≡◌, ℕ, ◌<◌, ◌≤◌, List, ◌++◌, length, Bool};
ghost use Rattle.wtp_huffman.specs.Huffman.{code, AllOnes, IsBytes, IsHuffman};

/// The Huffman code is a complete prefix code: no code word is a prefix of another, no word of ones
/// only is shorter than eight bits (so padding is not a word), and any 30 bits begin with a word.
pub fn huffman_words()
    ensures apart { (x y : ℕ) (more : List Bool) → x < 257 → y < 257
        → code x ≡ code y ++ more → x ≡ y }
    ensures ones { (x : ℕ) → x < 257 → AllOnes (code x) → 8 ≤ length (code x) }
    ensures full { (bits : List Bool) → 30 ≤ length bits
        → (x : ℕ) × (x < 257) × (more : List Bool) × (bits ≡ code x ++ more) }
{}

/// Encoding is a bijection: encoded bytes decode to exactly one text, and every text has exactly
/// one encoding.
pub fn huffman_texts()
    ensures one_text { (s t u : List ℕ) → IsHuffman t s → IsHuffman u s → t ≡ u }
    ensures one_string { (s t u : List ℕ) → IsBytes s → IsBytes u
        → IsHuffman t s → IsHuffman t u → s ≡ u }
    ensures each_text { (t : List ℕ) → IsBytes t → (s : List ℕ) × IsBytes s × IsHuffman t s }
{}
