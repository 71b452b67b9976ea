//! The state of the control stream in numbers of a fixed size, as a caller in C keeps it.
ghost use Rattle.std.specs.Prelude.{◌≡◌, MatchOption};
ghost use Rattle.wtp_frames.specs.Words.{side_number, side_at};
ghost use Rattle.wtp_sending.specs.declared.control.ControlSending.{ControlSending};
ghost use Rattle.wtp_sending.specs.Words.{settled_number, control_words, control_at, IsGoAway};

use crate::control::ControlSending;
use wtp_core::varint::VarInt;
use wtp_frames::endpoint::Side;
use wtp_frames::reader::words::OptionWords;

/// The state of a [`ControlSending`].
#[repr(C)]
#[derive(Clone, Copy, PartialEq, Eq)]
pub struct ControlWords {
    /// The ID of the last GOAWAY.
    pub goaway: OptionWords,
    /// The side of the peer: 0 for a client, 1 for a server.
    pub to: u8,
    /// Whether SETTINGS were sent: 2, or 1 if they were not.
    pub settled: u8,
    /// 0.
    pub reserved: u16,
    /// 0.
    pub reserved_half: u32,
}

// Returns the number of a side.
fn number_of(side: Side) -> u8
    ensures { result ≡ side_number side }
{
    match side {
        Side::Client => 0,
        Side::Server => 1,
    }
}

// Returns the side of a number.
fn side_of(number: u8) -> Side
    ensures { result ≡ side_at number }
{
    match number {
        0 => Side::Client,
        _ => Side::Server,
    }
}

impl ControlSending {
    /// Returns the words of the state.
    pub fn to_words(&self) -> ControlWords
        ensures words { result ≡ control_words self.now }
        ensures goaway { IsGoAway self.now.goaway }
    {
        let goaway = match self.goaway {
            Some(id) => OptionWords::of(Some(id.into_inner())),
            None => OptionWords::of(None),
        };
        ControlWords {
            goaway,
            to: number_of(self.to),
            settled: if self.settled { 2 } else { 1 },
            reserved: 0,
            reserved_half: 0,
        }
    }

    // Creates the state with this GOAWAY of the other words.
    fn from_words_unchecked(goaway: Option<VarInt>, words: ControlWords) -> Self
        ensures { result ≡ record (control_at words) { goaway = goaway } }
    {
        ControlSending {
            to: side_of(words.to),
            settled: words.settled == 2,
            goaway,
        }
    }

    /// Creates the state of these words, or returns `None` if they are those of no state.
    #[tactic(auto, using(crate::proofs::WordLemmas::no_control, crate::proofs::WordLemmas::no_goaway))]
    pub fn from_words(words: ControlWords) -> Option<Self>
        ensures { MatchOption result
            ((c : ControlSending) → IsGoAway c.goaway → ¬ (control_words c ≡ words))
            (λ c. control_words c ≡ words) }
    {
        let goaway = match words.goaway.to_option() {
            None => None,
            Some(number) => match VarInt::try_from_u64(number) {
                Ok(id) => Some(id),
                Err(_) => return None,
            },
        };
        let control = ControlSending::from_words_unchecked(goaway, words);
        if control.to_words() == words {
            Some(control)
        } else {
            None
        }
    }
}

/// The words of a state give that state.
#[tactic(auto, using(crate::proofs::WordLemmas::control_is_read))]
pub fn words_are_read()
    ensures { (c : ControlSending) → control_at (control_words c) ≡ c }
{}
