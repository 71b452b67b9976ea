//! How much content a message has (RFC 9110, section 8.6; RFC 9114, section 4.1.2).
ghost use Rattle.std.specs.Prelude.{◌≡◌, true, false, MatchResult, OnOk, OnErr};
ghost use Rattle.wtp_messages.specs.Content.{content_of, fits, left_after, complete};

use crate::malformed::Malformed;

/// The content of a message that is still to come, as its `content-length` announced it.
#[derive(Clone, Copy, Debug, PartialEq, Eq)]
pub struct Content {
    left: Option<u64>,
}

impl Content {
    /// The content of a message with this `content-length`, or with any length.
    pub fn new(announced: Option<u64>) -> Self
        ensures { result ≡ content_of announced }
    {
        Content { left: announced }
    }

    /// Returns how many bytes are still to come, or `None` if no length was announced.
    pub fn left(&self) -> Option<u64>
        ensures { result ≡ self.now.left }
    {
        self.left
    }

    /// Counts a DATA frame with a payload of `len` bytes, at its head.
    ///
    /// Returns [`Malformed::ContentTooLong`], and changes nothing, if these are more bytes than are
    /// still to come.
    pub fn add(&mut self, len: u64) -> Result<(), Malformed>
        ensures cases { MatchResult result (λ _. fits self.old.left len ≡ true)
            (λ e. (fits self.old.left len ≡ false) × (e ≡ Malformed.ContentTooLong)) }
        ensures added { OnOk result (self.new.left ≡ left_after self.old.left len) }
        ensures err { OnErr result (self.new ≡ self.old) }
    {
        if let Some(left) = self.left {
            if len > left {
                return Err(Malformed::ContentTooLong);
            }
            self.left = Some(left - len);
        }
        Ok(())
    }

    /// Checks that the message may end here.
    ///
    /// Returns [`Malformed::ContentTooShort`] if more bytes were announced.
    pub fn finish(&self) -> Result<(), Malformed>
        ensures { result ≡ complete self.now.left }
    {
        match self.left {
            None | Some(0) => Ok(()),
            Some(_) => Err(Malformed::ContentTooShort),
        }
    }
}
