//! Requests that are reset before their answer (RFC 9114, sections 4.1.1 and 10.5).
use crate::same::assert_same;
use std::process::Abort;
use wtp_connection::budget::RequestBudget;
use wtp_core::error::Code;

/// Requests that are answered, and then others that are reset before their answer.
struct Row {
    case: &'static str,
    /// How many more may be reset than are answered.
    excess: u64,
    /// How many are answered.
    answers: u32,
    /// How many may be reset then.
    resets: u32,
}

/// The rows.
static ROWS: [Row; 5] = [
    Row {
        case: "none is answered",
        excess: 100,
        answers: 0,
        resets: 100,
    },
    Row {
        case: "an answer makes room for one",
        excess: 100,
        answers: 1,
        resets: 101,
    },
    Row {
        case: "many are answered",
        excess: 3,
        answers: 150,
        resets: 153,
    },
    Row {
        case: "no excess",
        excess: 0,
        answers: 0,
        resets: 0,
    },
    Row {
        case: "no excess, after two answers",
        excess: 0,
        answers: 2,
        resets: 2,
    },
];

/// The number of the code; 0 if there is none.
fn number_of(code: Option<Code>) -> u64 {
    match code {
        None => 0,
        Some(code) => code.number().into_inner(),
    }
}

/// Resets requests, of which the last one is too many.
fn check_resets<R: Abort>(rt: &R, budget: &mut RequestBudget, resets: u32, case: &'static str) {
    for _request in 0..resets {
        assert_same(rt, number_of(budget.reset_unanswered()), 0, case);
    }
    assert_same(rt, number_of(budget.code()), 0, case);
    assert_same(rt, number_of(budget.reset_unanswered()), 0x107, case);
    assert_same(rt, number_of(budget.code()), 0x107, case);
}

#[test]
fn so_many_requests_may_be_reset(rt: HostRuntime) {
    for row in &ROWS {
        let mut budget = RequestBudget::with_excess(row.excess);
        for _request in 0..row.answers {
            budget.answered();
        }
        check_resets(&rt, &mut budget, row.resets, row.case);
    }
}

#[test]
fn the_bound_by_default(rt: HostRuntime) {
    let mut budget = RequestBudget::new();
    check_resets(&rt, &mut budget, 100, "by default");
}

#[test]
fn answers_and_resets_take_turns(rt: HostRuntime) {
    let mut budget = RequestBudget::with_excess(1);
    for _turn in 0..300u32 {
        assert_same(&rt, number_of(budget.reset_unanswered()), 0, "a reset");
        budget.answered();
    }
    check_resets(&rt, &mut budget, 1, "two resets at last");
}

#[test]
fn later_answers_change_nothing(rt: HostRuntime) {
    let mut budget = RequestBudget::with_excess(2);
    check_resets(&rt, &mut budget, 2, "three resets");
    for _request in 0..9u32 {
        budget.answered();
    }
    assert_same(&rt, number_of(budget.code()), 0x107, "after nine answers");
    let again = number_of(budget.reset_unanswered());
    assert_same(&rt, again, 0x107, "one more reset");
}
