//! Which requests of a client have begun, in bounded memory.
ghost use Rattle.std.specs.Prelude.{◌≡◌, ◌==◌, ◌+◌, ◌^◌, ◌<◌, ◌≤◌};
ghost use Rattle.std.specs.Int.{bit_at};
ghost use Rattle.wtp_connection.specs.Requests.{is_set, beginning_at, none_begun, slid, moved_to as moved_to_is, with_room, with_request};

pub mod words;

/// How many requests a word has.
const WORD: u64 = 64;

/// How many words the window has.
const WORDS: usize = 9;

/// What is known of a request.
#[derive(Clone, Copy)]
pub enum Beginning {
    /// It has begun.
    Begun,
    /// It has not begun.
    NotBegun,
    /// It is not known: the request is too far behind others.
    Lost,
}

/// Which requests of a client have begun. The streams of requests have the IDs 0, 4, 8 and so on (RFC
/// 9000, section 2.1); request `n` is the one with the ID `4 * n`.
///
/// It is exact for each request that is less than 512 places behind the last one.
#[derive(Clone, Copy)]
pub struct Begun {
    /// The first request of the window.
    first: u64,
    /// All requests from this one up to the window have begun. Of those before it nothing is known.
    lost: u64,
    /// A bit for each request of the window, by whether it has begun.
    words: [u64; 9],
}

impl Begun {
    /// Creates the set of no requests.
    pub fn new() -> Self
        ensures { result ≡ none_begun }
    {
        Begun {
            first: 0,
            lost: 0,
            words: [0; 9],
        }
    }

    /// Returns what is known of a request.
    pub fn beginning(&self, n: u64) -> Beginning
        ensures { result ≡ beginning_at self.now n }
    {
        if n < self.lost {
            return Beginning::Lost;
        }
        if n < self.first || self.is_in_window(n - self.first) {
            Beginning::Begun
        } else {
            Beginning::NotBegun
        }
    }

    // Returns whether the bit of this place is set.
    fn is_in_window(&self, place: u64) -> bool
        ensures { result ≡ is_set self.now.words place }
    {
        let word = place / WORD;
        if word < WORDS as u64 {
            has_bit(self.words[word as usize], (place % WORD) as u32)
        } else {
            false
        }
    }

    /// Adds a request that begins. If it is past the window, the window moves; requests that it moves
    /// over and that have not begun are lost.
    pub fn insert(&mut self, n: u64)
        ensures { self.new ≡ with_request self.old n }
    {
        self.make_room(n);
        if n < self.first {
            return;
        }
        let place = n - self.first;
        let word = place / WORD;
        if word < WORDS as u64 {
            self.words[word as usize] = self.words[word as usize] | (1 << (place % WORD));
        }
    }

    // Moves the window so that it has this request or is after it.
    fn make_room(&mut self, n: u64)
        ensures { self.new ≡ with_room self.old n }
    {
        let past = (n.saturating_sub(self.first) / WORD).saturating_sub(8);
        if past > 9 {
            *self = Begun::moved_to(n);
            return;
        }
        let mut left = past;
        'words: while left > 0 {
            self.slide();
            left -= 1;
        }
    }

    // Returns an empty window that ends in the word of this request.
    fn moved_to(n: u64) -> Self
        requires { 576 ≤ n }
        ensures { result ≡ moved_to_is n }
    {
        let first = n - n % WORD - 512;
        Begun {
            first,
            lost: first,
            words: [0; 9],
        }
    }

    // Moves the window by a word.
    fn slide(&mut self)
        requires { self.old.first + 64 < 2 ^ 64 }
        ensures { self.new ≡ slid self.old }
    {
        self.first += WORD;
        if self.words[0] != u64::MAX {
            self.lost = self.first;
        }
        let words = self.words;
        self.words = [
            words[1], words[2], words[3], words[4], words[5], words[6], words[7], words[8], 0,
        ];
    }
}

// Returns whether bit `k` of a word is set.
fn has_bit(word: u64, k: u32) -> bool
    requires { k < 64 }
    ensures { result ≡ (bit_at word k == 1) }
{
    (word >> k) & 1 == 1
}
