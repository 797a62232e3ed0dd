// Plans, and what they come to.
ghost use Rattle.std.specs.Prelude.{◌≡◌, ◌↔◌, ◌<◌, ◌^◌, Bool, false, IfOk, IsTrue, length, map, slice_index_or};
ghost use Rattle.row_checker.specs.Rows.{IsAtLeast, IsAtMost, Meets, if_chosen, row_at, row_in, total};
ghost use Rattle.c_rows.specs.Input.{plan_of};

use row_checker::{Multiple, Row};
use std::alloc::{AllocError, Global};

/// The plan with these numbers.
pub fn plan_of(alloc: Global, numbers: &[u8]) -> Result<Vec<bool>, AllocError>
    ensures { IfOk result (λ plan. plan.items ≡ plan_of numbers.now) }
{
    let mut plan = Vec::new(alloc);
    for number in numbers {
        plan.push(*number == 1)?;
    }
    Ok(plan)
}

// What a term adds to the plan's sum.
fn added(plan: &[bool], term: Multiple) -> i64
    ensures { result ≡ if_chosen (slice_index_or plan.now term.of false) term.times }
{
    if term.of < plan.len() && plan[term.of] {
        term.times
    } else {
        0
    }
}

// The sum of the chosen variables' coefficients.
fn total(plan: &[bool], terms: &[Multiple]) -> i128
    ensures { result ≡ total plan.now terms.now }
{
    let mut sum = 0_i128;
    for term in terms {
        sum += i128::from(added(plan, *term));
    }
    sum
}

// Whether a number is at least a bound, if there is one.
fn is_at_least(bound: Option<i64>, number: i128) -> bool
    ensures { IsTrue result ↔ IsAtLeast bound number }
{
    match bound {
        Some(least) => i128::from(least) <= number,
        None => true,
    }
}

// Whether a number is at most a bound, if there is one.
fn is_at_most(bound: Option<i64>, number: i128) -> bool
    ensures { IsTrue result ↔ IsAtMost bound number }
{
    match bound {
        Some(most) => number <= i128::from(most),
        None => true,
    }
}

/// The plan's sum in a row; 0 where the row isn't there.
pub fn total_in(plan: &[bool], rows: &[Row], place: usize) -> i128
    ensures { result ≡ total plan.now (row_at (map row_in rows.now) place).terms }
{
    if place < rows.len() {
        total(plan, rows[place].terms.as_slice())
    } else {
        0
    }
}

/// Whether the plan meets the row.
pub fn meets(plan: &[bool], row: &Row) -> bool
    ensures { IsTrue result ↔ Meets plan.now (row_in row.now) }
{
    let sum = total(plan, row.terms.as_slice());
    let least = is_at_least(row.least, sum);
    let most = is_at_most(row.most, sum);
    least && most
}
