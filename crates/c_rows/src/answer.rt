// The answer on what a caller gives.
ghost use Rattle.std.specs.Prelude.{◌≡◌, ◌<◌, ◌≤◌, ◌^◌, ◌-◌, [], ℕ, IfOk, IfErr, MatchOption, length, map};
ghost use Rattle.row_checker.specs.Rows.{row_in};
ghost use Rattle.c_rows.specs.Input.{AreRows, plan_of, rows_in, rows_of};
ghost use Rattle.c_rows.specs.Answers.{IsAnswer, IsCost, IsFirstBroken, IsPlanAnswer, IsSoFar, is_fault, tree_answer};

use super::input::{Input, count_rows, has_cost_row, have_lengths};
use super::lists::{first_unnamed_variable, first_wrong_number, first_wrong_start};
use super::plan::{meets, plan_of, total_in};
use super::rows::rows_of;
use row_checker::{Fault, Row, Verdict, verdict_of};
use std::alloc::{AllocError, Global};

/// What a call finds: the first of these that applies. Places count from 0.
#[derive(Clone, Copy, PartialEq, Eq)]
pub enum Answer {
    /// No plan meets all rows.
    Shown,
    /// No plan meets all rows; the given one meets all but the last, in which its sum is this. None
    /// that meets these has a sum below the last row's bound and 1.
    Costs(i64),
    /// The tree doesn't show it.
    Not(Fault),
    /// The lengths of the lists don't fit each other.
    Length,
    /// The start at this place is wrong.
    Start(usize),
    /// With a plan: the last row has a lower bound, or no upper one.
    CostRow,
    /// The variable at this place of the rows' terms isn't there.
    RowVariable(usize),
    /// The plan's number at this place isn't 0 or 1.
    PlanNumber(usize),
    /// The plan doesn't meet this row, the first of all but the last.
    Broken(usize),
    /// The plan's sum in the last row is beyond 64 bits.
    Cost,
    /// Memory was refused.
    Memory,
}

// The first fault of the lists.
fn rows_fault(input: &Input<'_>) -> Option<Answer>
    ensures { MatchOption result (AreRows input.now) (IsAnswer input.now) }
{
    if !have_lengths(input) {
        return Some(Answer::Length);
    }
    if let Some(place) = first_wrong_start(input.starts, input.variables.len()) {
        return Some(Answer::Start(place));
    }
    if !has_cost_row(input) {
        return Some(Answer::CostRow);
    }
    if let Some(place) = first_unnamed_variable(input.variables, input.n) {
        return Some(Answer::RowVariable(place));
    }
    match first_wrong_number(input.plan) {
        Some(place) => Some(Answer::PlanNumber(place)),
        None => None,
    }
}

// The first of so many rows that the plan doesn't meet.
fn first_broken(plan: &[bool], rows: &[Row], count: usize) -> Option<usize>
    requires { count ≤ length rows.now }
    ensures { IsFirstBroken plan.now (map row_in rows.now) count result }
{
    for r in 0..count {
        if !meets(plan, &rows[r]) {
            return Some(r);
        }
    }
    None
}

// The answer on a plan with this sum in the last row.
fn costs(sum: i128) -> Answer
    ensures { IsCost sum result }
{
    if i128::from(i64::MIN) <= sum && sum <= i128::from(i64::MAX) {
        Answer::Costs(sum as i64)
    } else {
        Answer::Cost
    }
}

// The answer on the given plan, before the tree is read.
fn plan_answer(alloc: Global, input: &Input<'_>, rows: &[Row]) -> Result<Answer, AllocError>
    requires rows { map row_in rows.now ≡ rows_of input.now (rows_in input.now) }
    requires last { 0 < length rows.now }
    requires count { length rows.now ≡ rows_in input.now }
    ensures { IfOk result (IsPlanAnswer input.now) }
{
    let plan = plan_of(alloc, input.plan)?;
    let last = rows.len() - 1;
    if let Some(row) = first_broken(plan.as_slice(), rows, last) {
        return Ok(Answer::Broken(row));
    }
    Ok(costs(total_in(plan.as_slice(), rows, last)))
}

// The answer before the tree is read.
fn answer_so_far(alloc: Global, input: &Input<'_>, rows: &[Row]) -> Result<Answer, AllocError>
    requires rows { map row_in rows.now ≡ rows_of input.now (rows_in input.now) }
    requires count { length rows.now ≡ rows_in input.now }
    requires last { 0 < length input.now.plan → 0 < length rows.now }
    ensures { IfOk result (IsSoFar input.now) }
{
    if input.plan.is_empty() {
        return Ok(Answer::Shown);
    }
    let answer = plan_answer(alloc, input, rows)?;
    Ok(answer)
}

// The answer of the tree, where the plan has no fault.
fn tree_answer(verdict: Verdict, so_far: Answer) -> Answer
    ensures { result ≡ tree_answer verdict so_far }
{
    match verdict {
        Verdict::Shown => so_far,
        Verdict::Not(fault) => Answer::Not(fault),
    }
}

// Whether the plan has a fault.
fn is_fault(answer: Answer) -> bool
    ensures { result ≡ is_fault answer }
{
    match answer {
        Answer::Cost => true,
        Answer::Broken(_) => true,
        _ => false,
    }
}

// The answer, where memory isn't refused.
#[tactic(auto, using(crate::proofs::Answering::plan_fault, crate::proofs::Answering::tree_is))]
fn found(alloc: Global, input: &Input<'_>) -> Result<Answer, AllocError>
    ensures answer { IfOk result (IsAnswer input.now) }
    ensures refused { IfErr result (λ e. AreRows input.now) }
{
    if let Some(fault) = rows_fault(input) {
        return Ok(fault);
    }
    let count = count_rows(input);
    let rows = rows_of(alloc, input, count)?;
    let so_far = answer_so_far(alloc, input, rows.as_slice())?;
    if is_fault(so_far) {
        return Ok(so_far);
    }
    let verdict = verdict_of(alloc, input.n, rows, input.tree)?;
    Ok(tree_answer(verdict, so_far))
}

/// What a caller's rows, plan and tree show: that no plan meets the rows, or the first fault.
/// `Memory` comes only where nothing is wrong with the lists.
pub fn answer_on(alloc: Global, input: &Input<'_>) -> Answer
    ensures { IsAnswer input.now result }
{
    match found(alloc, input) {
        Ok(answer) => answer,
        Err(_) => Answer::Memory,
    }
}
