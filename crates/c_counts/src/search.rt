// The search, and the check of what it finds.
ghost use Rattle.std.specs.Prelude.{◌≡◌, ◌↔◌, IfOk, IsTrue};
ghost use Rattle.count_checker.specs.Counts.{chosen, cost_of};
ghost use Rattle.count_checker.specs.CountLists.{problem_in};
ghost use Rattle.c_counts.specs.Answers.{HasLengths, IsAnswer, IsEnd, marks_of};

use crate::end::End;
use crate::most_pairs::{cost_of_each, goes_by_most, solve_most};
use crate::ones::{are_ones, goes_by_ones, solve_ones};
use crate::prepare::{Prepared, after_none};
use count_checker::{
    CheckedLists, CountLists, CountVerdict, Marks, ShortageVerdict, Side, check, check_shortage,
};
use count_search::{Answer as Room, Found, Record, search};
use std::alloc::{AllocError, Global};

/// Where a search stands, and what it ended with.
#[derive(Drop)]
pub struct Answer {
    pub end: End,
    /// The sum of the costs of a best plan.
    pub sum: i128,
    pub plan: Vec<u8>,
    pub row_numbers: Vec<i64>,
    pub column_numbers: Vec<i64>,
    pub row_marks: Vec<u8>,
    pub column_marks: Vec<u8>,
    pub record: Record,
}

/// A search that begins from a plan and numbers, if its record says so.
pub fn start_of(
    alloc: Global,
    plan: &[u8],
    row_numbers: &[i64],
    column_numbers: &[i64],
    record: Record,
) -> Result<Answer, AllocError> {
    let row_marks = vec![in alloc; 0u8; row_numbers.len()]?;
    let column_marks = vec![in alloc; 0u8; column_numbers.len()]?;
    let plan = Vec::from_slice(alloc, plan)?;
    let row_numbers = Vec::from_slice(alloc, row_numbers)?;
    let column_numbers = Vec::from_slice(alloc, column_numbers)?;
    Ok(Answer {
        end: End::Undecided,
        sum: 0,
        plan,
        row_numbers,
        column_numbers,
        row_marks,
        column_marks,
        record,
    })
}

// Searches. What is found isn't trusted.
fn run(
    alloc: Global,
    problem: &CheckedLists<'_>,
    answer: &mut Answer,
    budget: u64,
) -> Result<Found, AllocError> {
    let lists = problem.lists();
    if goes_by_ones(&answer.record) && are_ones(lists) {
        return solve_ones(alloc, problem, answer, budget);
    }
    if goes_by_most(&answer.record) {
        if let Some(cost) = cost_of_each(lists) {
            return solve_most(alloc, lists, cost, answer, budget);
        }
    }
    run_auction(alloc, lists, answer, budget)
}

// Searches by the auction, for which a column that nobody takes stands before the others.
fn run_auction(
    alloc: Global,
    lists: CountLists<'_>,
    answer: &mut Answer,
    budget: u64,
) -> Result<Found, AllocError> {
    let prepared = Prepared::of(alloc, lists)?;
    let mut column_numbers = after_none(alloc, answer.column_numbers.as_slice())?;
    let mut column_marks = after_none(alloc, answer.column_marks.as_slice())?;
    let mut room = Room {
        plan: answer.plan.as_mut_slice(),
        row_numbers: answer.row_numbers.as_mut_slice(),
        column_numbers: column_numbers.as_mut_slice(),
        row_marks: answer.row_marks.as_mut_slice(),
        column_marks: column_marks.as_mut_slice(),
    };
    let problem = prepared.problem(lists);
    let found = search(alloc, &problem, &mut room, budget, &mut answer.record)?;
    copy_rest(
        answer.column_numbers.as_mut_slice(),
        column_numbers.as_slice(),
    );
    copy_rest(answer.column_marks.as_mut_slice(), column_marks.as_slice());
    Ok(found)
}

// Copies all but the first of others.
fn copy_rest<T: Copy>(numbers: &mut [T], others: &[T]) {
    for (number, other) in numbers.iter_mut().zip(others.iter().skip(1)) {
        *number = *other;
    }
}

// Whether the lists of a plan have the right lengths.
fn has_lengths(problem: &CheckedLists<'_>, answer: &Answer) -> bool
    ensures { IsTrue result ↔ HasLengths problem.now answer.now }
{
    let lists = problem.lists();
    answer.plan.len() == lists.rows.len()
        && answer.row_numbers.len() == lists.row_least.len()
        && answer.column_numbers.len() == lists.column_least.len()
}

// The end with a plan: the best, if the checker says so.
fn end_with_plan(
    alloc: Global,
    problem: &CheckedLists<'_>,
    answer: &Answer,
) -> Result<End, AllocError>
    ensures { IfOk result (λ end. IsEnd problem.now 0 answer.now end) }
{
    let plan = Marks::of(answer.plan.as_slice());
    let (rows, columns) = (
        answer.row_numbers.as_slice(),
        answer.column_numbers.as_slice(),
    );
    match check(alloc, problem, &plan, rows, columns)? {
        CountVerdict::Yes => Ok(End::Best),
        _ => Ok(End::Undecided),
    }
}

// The end with a shortage, if the checker says so.
fn end_with_rows(
    alloc: Global,
    problem: &CheckedLists<'_>,
    answer: &Answer,
) -> Result<End, AllocError>
    ensures { IfOk result (λ end. IsEnd problem.now 0 answer.now end) }
{
    let rows = Marks::of(answer.row_marks.as_slice());
    let columns = Marks::of(answer.column_marks.as_slice());
    match check_shortage(alloc, problem, Side::Rows, &rows, &columns)? {
        ShortageVerdict::Yes => Ok(End::RowsLack),
        _ => Ok(End::Undecided),
    }
}

// The same, where columns lack.
fn end_with_columns(
    alloc: Global,
    problem: &CheckedLists<'_>,
    answer: &Answer,
) -> Result<End, AllocError>
    ensures { IfOk result (λ end. IsEnd problem.now 0 answer.now end) }
{
    let rows = Marks::of(answer.row_marks.as_slice());
    let columns = Marks::of(answer.column_marks.as_slice());
    match check_shortage(alloc, problem, Side::Columns, &rows, &columns)? {
        ShortageVerdict::Yes => Ok(End::ColumnsLack),
        _ => Ok(End::Undecided),
    }
}

// The end of a search that stopped.
fn end_stopped(problem: &CheckedLists<'_>, answer: &Answer, budget: u64) -> End
    ensures { IsEnd problem.now budget answer.now result }
{
    if budget > 0 && has_lengths(problem, answer) {
        End::Stopped
    } else {
        End::Undecided
    }
}

// The end, by what the checkers say.
fn end_of(
    alloc: Global,
    problem: &CheckedLists<'_>,
    answer: &Answer,
    found: Found,
    budget: u64,
) -> Result<End, AllocError>
    ensures { IfOk result (λ end. IsEnd problem.now budget answer.now end) }
{
    match found {
        Found::Plan => end_with_plan(alloc, problem, answer),
        Found::RowsLack => end_with_rows(alloc, problem, answer),
        Found::ColumnsLack => end_with_columns(alloc, problem, answer),
        Found::Stopped => Ok(end_stopped(problem, answer, budget)),
        Found::Nothing => Ok(End::Undecided),
    }
}

// The sum of the plan's costs.
fn sum_of(problem: &CheckedLists<'_>, answer: &Answer) -> i128
    ensures { result ≡ cost_of (chosen (problem_in problem.now).pairs (marks_of answer.now.plan.items)) }
{
    problem.cost(&Marks::of(answer.plan.as_slice()))
}

/// Searches on from where an answer stands, and checks what is found.
pub fn answer_on(
    alloc: Global,
    problem: &CheckedLists<'_>,
    start: Answer,
    budget: u64,
) -> Result<Answer, AllocError>
    ensures { IfOk result (λ answer. IsAnswer problem.now budget answer) }
{
    let mut answer = start;
    let found = run(alloc, problem, &mut answer, budget)?;
    let end = end_of(alloc, problem, &answer, found, budget)?;
    let sum = sum_of(problem, &answer);
    Ok(Answer { end, sum, ..answer })
}
