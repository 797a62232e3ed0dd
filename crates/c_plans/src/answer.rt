// Proved answers to whether a plan is the only best one.
ghost use Rattle.std.specs.Prelude.{◌≡◌, ◌≢◌, ◌↔◌, IfOk, IsTrue, length};
ghost use Rattle.cost_lists.specs.Exact.{IsOptimum};
ghost use Rattle.plan_checker.specs.Ranks.{AreRanked};
ghost use Rattle.c_plans.specs.Answers.{IsAnswer, IsOtherOptimum};

use cost_lists::{CostLists, Object, Price};
use exact_checker::{Verdict, check};
use plan_checker::{Rank, are_ranked};
use plan_search::{Found, Shown, find_other};
use std::alloc::{AllocError, Global};

/// Whether a plan is the only best one.
#[derive(Drop)]
pub enum Answer {
    /// The prices don't prove the plan.
    Refused(Verdict),
    /// It is, as these ranks show.
    Only(Vec<Rank>),
    /// It isn't: these objects are another one.
    Other(Vec<Object>),
    /// Neither was shown.
    Open,
}

// Whether two lists differ.
pub fn differ(first: &[Object], second: &[Object]) -> bool
    ensures { IsTrue result ↔ (first.now ≢ second.now) }
{
    first != second
}

// Whether these objects are another optimum of these prices.
fn is_other(
    alloc: Global,
    lists: &CostLists<'_>,
    objects: &[Object],
    prices: &[Price],
    other: &[Object],
) -> Result<bool, AllocError>
    ensures { IfOk result (λ is. IsTrue is
        → IsOtherOptimum lists.now objects.now prices.now other.now) }
{
    if !differ(other, objects) {
        return Ok(false);
    }
    let verdict = check(alloc, lists, other, prices)?;
    Ok(verdict == Verdict::Yes)
}

// Searches for another optimum than this one, and checks what was found.
fn answer_of(
    alloc: Global,
    lists: &CostLists<'_>,
    objects: &[Object],
    prices: &[Price],
) -> Result<Answer, AllocError>
    requires { IsOptimum lists.now objects.now prices.now }
    ensures { IfOk result (IsAnswer lists.now objects.now prices.now) }
{
    let Found { other, shown } = find_other(alloc, lists, objects, prices, 1, u64::MAX)?;
    if let Some(other) = other {
        if is_other(alloc, lists, objects, prices, other.as_slice())? {
            return Ok(Answer::Other(other));
        }
        return Ok(Answer::Open);
    }
    if let Some(shown) = shown {
        let Shown {
            ranks,
            count: _count,
            others: _others,
        } = shown;
        let by = ranks.as_slice();
        if are_ranked(alloc, lists, objects, prices, by, 0, &[], true, 1)? {
            return Ok(Answer::Only(ranks));
        }
    }
    Ok(Answer::Open)
}

/// Whether the plan that these objects and prices are is the only best one.
pub fn decide(
    alloc: Global,
    lists: &CostLists<'_>,
    objects: &[Object],
    prices: &[Price],
) -> Result<Answer, AllocError>
    ensures { IfOk result (IsAnswer lists.now objects.now prices.now) }
{
    let verdict = check(alloc, lists, objects, prices)?;
    if verdict != Verdict::Yes {
        return Ok(Answer::Refused(verdict));
    }
    answer_of(alloc, lists, objects, prices)
}
