//! The requests that have begun in numbers of a fixed size, as a caller in C keeps them.
ghost use Rattle.std.specs.Prelude.{◌≡◌};
ghost use Rattle.wtp_connection.specs.Words.{begun_words, begun_at};

use crate::requests::Begun;

/// A [`Begun`].
#[repr(C)]
#[derive(Clone, Copy, PartialEq, Eq)]
pub struct BegunWords {
    /// The first request of the window.
    pub first: u64,
    /// The first request of which something is known.
    pub lost: u64,
    /// A bit for each request of the window.
    pub words: [u64; 9],
}

impl Begun {
    // Returns the words of the requests.
    pub(crate) fn to_words(self) -> BegunWords
        ensures { result ≡ begun_words self }
    {
        let words = self.words;
        BegunWords {
            first: self.first,
            lost: self.lost,
            words,
        }
    }

    // Creates the requests of these words.
    pub(crate) fn from_words(words: BegunWords) -> Self
        ensures { result ≡ begun_at words }
    {
        let window = words.words;
        Begun {
            first: words.first,
            lost: words.lost,
            words: window,
        }
    }
}
