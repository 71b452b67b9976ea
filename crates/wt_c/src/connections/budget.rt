//! A bound on requests that are reset before their answer (RFC 9114, sections 4.1.1 and 10.5).
ghost use Rattle.std.specs.Prelude.{◌≡◌, ◌⊎◌, Some, None};
ghost use Rattle.wtp_connection.specs.Budget.{is_exceeded as is_exceeded_is, with_answer, with_reset, code_after};
ghost use Rattle.wt_c.specs.RequestBudgets.{budget_with};

use crate::status::{ERROR, OK};
use wtp_core::error::Code;

/// How many requests of a connection were answered, and how many its client reset before their
/// answer: `RequestBudget` of the crate `wtp_connection`.
#[repr(C)]
#[derive(Clone, Copy)]
pub struct WtRequestBudget {
    /// How many more may be reset before their answer than are answered.
    pub excess: u64,
    /// How many were answered.
    pub answers: u64,
    /// How many were reset before their answer.
    pub resets: u64,
}

impl WtRequestBudget {
    // Returns whether too many requests were reset before their answer.
    fn is_exceeded(&self) -> bool
        ensures { result ≡ is_exceeded_is (budget_with self.now) }
    {
        self.resets.saturating_sub(self.answers) > self.excess
    }
}

/// Counts a request that was answered: one whose final response was sent. Nothing changes once too
/// many were reset. Returns `OK`.
#[unsafe(no_mangle)]
pub extern "C" fn wt_request_answered(budget: &mut WtRequestBudget) -> i32
    ensures answer { result ≡ OK }
    ensures budget { budget_with budget.new ≡ with_answer (budget_with budget.old) }
{
    if !budget.is_exceeded() {
        budget.answers = budget.answers.saturating_add(1);
    }
    OK
}

/// Counts a request that its client reset before it was answered.
///
/// Returns `OK`, or `ERROR` with the code H3_EXCESSIVE_LOAD (0x107) if more were reset than were
/// answered and the excess together: the connection is to be closed with it (RFC 9114, section
/// 10.5). Every later call then returns it too, and counts nothing. Only `ERROR` changes `code`.
#[unsafe(no_mangle)]
pub extern "C" fn wt_request_reset(budget: &mut WtRequestBudget, code: &mut u64) -> i32
    ensures answers { (result ≡ OK) ⊎ (result ≡ ERROR) }
    ensures budget { budget_with budget.new ≡ with_reset (budget_with budget.old) }
    ensures within { result ≡ OK → (code_after (budget_with budget.new) ≡ None)
        × (code.new ≡ code.old) }
    ensures exceeded { result ≡ ERROR → code_after (budget_with budget.new) ≡ Some code.new }
{
    if !budget.is_exceeded() {
        budget.resets = budget.resets.saturating_add(1);
    }
    if !budget.is_exceeded() {
        return OK;
    }
    *code = Code::H3_EXCESSIVE_LOAD.number().into_inner();
    ERROR
}
