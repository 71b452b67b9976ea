//! A bound on requests that are reset before their answer (RFC 9114, sections 4.1.1 and 10.5).
ghost use Rattle.std.specs.Prelude.{◌≡◌};
ghost use Rattle.wtp_connection.specs.Budget.{budget_of, is_exceeded as is_exceeded_is, with_answer, with_reset, code_after};

use wtp_core::error::Code;

/// How many more requests may be reset before their answer than are answered, unless another number is
/// set.
const MAX_EXCESS: u64 = 100;

/// How many requests of a connection were answered, and how many its client reset before their answer.
///
/// A client that sends requests and resets them at once costs a server work, and QUIC's limit of
/// streams does not bound it: a stream that is reset makes room for the next one ("rapid reset"). RFC
/// 9114, section 10.5, lets an endpoint treat such activity as an error of the connection.
///
/// Pass the same budget for all requests of a connection. Each count is exact below 2^64, which no
/// connection reaches: it has at most 2^60 requests.
#[derive(Clone, Copy)]
pub struct RequestBudget {
    /// How many requests were answered.
    answers: u64,
    /// How many were reset before their answer.
    resets: u64,
    /// How many more may be reset before their answer than are answered.
    excess: u64,
}

impl RequestBudget {
    /// Creates the budget of a connection without requests. At most 100 more requests may be reset
    /// before their answer than are answered.
    pub fn new() -> Self
        ensures { result ≡ budget_of 100 }
    {
        RequestBudget::with_excess(MAX_EXCESS)
    }

    /// The same with another number in place of 100.
    pub fn with_excess(excess: u64) -> Self
        ensures { result ≡ budget_of excess }
    {
        RequestBudget {
            answers: 0,
            resets: 0,
            excess,
        }
    }

    /// Counts a request that was answered: one whose final response was sent. Nothing changes once too
    /// many were reset.
    pub fn answered(&mut self)
        ensures { self.new ≡ with_answer self.old }
    {
        if !self.is_exceeded() {
            self.answers = self.answers.saturating_add(1);
        }
    }

    /// Counts a request that its client reset before it was answered. Returns H3_EXCESSIVE_LOAD if more
    /// were reset than were answered and the excess together; the connection is to be closed with it
    /// (RFC 9114, section 10.5). Every later call then returns it too, and counts nothing.
    pub fn reset_unanswered(&mut self) -> Option<Code>
        ensures budget { self.new ≡ with_reset self.old }
        ensures code { result ≡ code_after self.new }
    {
        if self.code().is_none() {
            self.resets = self.resets.saturating_add(1);
        }
        self.code()
    }

    /// Returns H3_EXCESSIVE_LOAD if too many requests were reset before their answer.
    pub fn code(&self) -> Option<Code>
        ensures { result ≡ code_after self.now }
    {
        if self.is_exceeded() {
            Some(Code::H3_EXCESSIVE_LOAD)
        } else {
            None
        }
    }

    // Returns whether too many requests were reset before their answer.
    fn is_exceeded(&self) -> bool
        ensures { result ≡ is_exceeded_is self.now }
    {
        self.resets.saturating_sub(self.answers) > self.excess
    }
}
