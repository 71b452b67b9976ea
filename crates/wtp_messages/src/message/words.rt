//! The state of a message in numbers of a fixed size, as a caller in C keeps it.
ghost use Rattle.std.specs.Prelude.{◌≡◌};
ghost use Rattle.wtp_messages.specs.declared.message.Message.{Message};
ghost use Rattle.wtp_messages.specs.Words.{asked_number, asked_at as asked_at_is, role_number, role_at, stage_number, stage_at, message_words, message_at, no_message};

use crate::content::Content;
use crate::message::{Message, Role, Stage};
use crate::response::Asked;

/// The state of a [`Message`].
#[repr(C)]
#[derive(Clone, Copy, PartialEq, Eq)]
pub struct MessageWords {
    /// How many bytes of content are still to come, or 0 if no length was announced.
    pub left: u64,
    /// Whether a length was announced: 1 or 0.
    pub announced: u32,
    /// The role: 0 or 1 for a request without and with extended CONNECT, and 2 more than the number
    /// of what the request asked for, for a response to it.
    pub role: u16,
    /// How much came, from 0 on.
    pub stage: u16,
}

impl Asked {
    /// Returns the number of the variant, from 0 on.
    pub fn number(self) -> u16
        ensures { result ≡ asked_number self }
    {
        match self {
            Asked::Head => 0,
            Asked::Connect => 1,
            Asked::Session => 2,
            Asked::Other => 3,
        }
    }

    /// Returns the variant of a number. A larger one gives `Other`.
    pub fn at(number: u16) -> Self
        ensures { result ≡ asked_at_is number }
    {
        match number {
            0 => Asked::Head,
            1 => Asked::Connect,
            2 => Asked::Session,
            _ => Asked::Other,
        }
    }
}

impl Role {
    // Returns the number of the role.
    fn number(self) -> u16
        ensures { result ≡ role_number self }
    {
        match self {
            Role::Request(false) => 0,
            Role::Request(true) => 1,
            Role::Response(asked) => 2 + asked.number(),
        }
    }

    // Returns the role of a number.
    fn at(number: u16) -> Self
        ensures { result ≡ role_at number }
    {
        match number {
            0 => Role::Request(false),
            1 => Role::Request(true),
            _ => Role::Response(Asked::at(number - 2)),
        }
    }
}

impl Stage {
    // Returns the number of the variant.
    fn number(self) -> u16
        ensures { result ≡ stage_number self }
    {
        match self {
            Stage::Head => 0,
            Stage::Body => 1,
            Stage::End => 2,
        }
    }

    // Returns the variant of a number.
    fn at(number: u16) -> Self
        ensures { result ≡ stage_at number }
    {
        match number {
            0 => Stage::Head,
            1 => Stage::Body,
            _ => Stage::End,
        }
    }
}

impl MessageWords {
    /// Creates the words where there is no message: 0.
    pub fn none() -> Self
        ensures { result ≡ no_message }
    {
        MessageWords {
            left: 0,
            announced: 0,
            role: 0,
            stage: 0,
        }
    }
}

impl Message {
    /// Returns the words of the message.
    pub fn to_words(self) -> MessageWords
        ensures { result ≡ message_words self }
    {
        match self.content.left() {
            Some(left) => MessageWords {
                left,
                announced: 1,
                role: self.role.number(),
                stage: self.stage.number(),
            },
            None => MessageWords {
                left: 0,
                announced: 0,
                role: self.role.number(),
                stage: self.stage.number(),
            },
        }
    }

    /// Creates the message of these words. Other words than those of a message give any message.
    pub fn from_words_unchecked(words: MessageWords) -> Self
        ensures { result ≡ message_at words }
    {
        let left = if words.announced != 0 {
            Some(words.left)
        } else {
            None
        };
        Message {
            role: Role::at(words.role),
            stage: Stage::at(words.stage),
            content: Content::new(left),
        }
    }
}

/// The words of a message give that message.
#[tactic(auto, using(crate::proofs::WordLemmas::message_is_read))]
pub fn words_are_read()
    ensures { (m : Message) → message_at (message_words m) ≡ m }
{}
