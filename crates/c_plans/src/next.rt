// Proved answers to which plan is the next best.
ghost use Rattle.std.specs.Prelude.{◌≡◌, ◌≢◌, List, ℕ, ℤ, true, IfOk, IfSome, IsTrue};
ghost use Rattle.assign_core.specs.Assignment.{AreListed, IsAssignment};
ghost use Rattle.cost_lists.specs.Exact.{IsOptimum};
ghost use Rattle.cost_lists.specs.ListedCosts.{ListedCosts};
ghost use Rattle.exact_checker.specs.Verdicts.{IsVerdict};
ghost use Rattle.plan_checker.specs.Next.{IsOnlyAssignment};
ghost use Rattle.c_plans.specs.NextAnswers.{CostsMore, IsNext, IsNextAnswer};

use super::answer::differ;
use assign_core::Cost;
use cost_lists::{CostLists, Object, Price};
use exact_checker::{Verdict, check};
use plan_checker::{NO_BOUND, are_ranked, ranks_mean_alone, ranks_mean_next};
use plan_search::{Found, Shown, find_other};
use ranking_checker::more_by;
use std::alloc::{AllocError, Global};

/// What another plan costs.
#[derive(Clone, Copy)]
pub struct NextCost {
    /// The sum of its costs.
    pub total: Cost,
    /// How much more that is than the best plan's; under `Sense::Max`, how much less.
    pub margin: Cost,
}

/// Which plan is the next best.
#[derive(Drop)]
pub enum Next {
    /// The prices don't prove the plan.
    Refused(Verdict),
    /// There is no other plan.
    Alone,
    /// These objects, at this cost.
    Another(Vec<Object>, NextCost),
    /// None was shown.
    Open,
}

// Whether lists of a verdict are an assignment, though it need not be best.
fn is_assigned(verdict: Verdict) -> bool
    ensures { (l : ListedCosts) (xs : List ℕ) (prices : List ℤ)
        → IsVerdict l xs prices verdict → IsTrue result → IsAssignment l.rows xs }
{
    match verdict {
        Verdict::Slack(_, _) => true,
        Verdict::Overpriced(_) => true,
        Verdict::Yes => true,
        _ => false,
    }
}

// Whether these objects are another assignment.
fn is_another(
    alloc: Global,
    lists: &CostLists<'_>,
    objects: &[Object],
    prices: &[Price],
    other: &[Object],
) -> Result<bool, AllocError>
    ensures assigned { IfOk result (λ is. IsTrue is → IsAssignment lists.now.rows other.now) }
    ensures other { IfOk result (λ is. IsTrue is → other.now ≢ objects.now) }
{
    if !differ(other, objects) {
        return Ok(false);
    }
    let verdict = check(alloc, lists, other, prices)?;
    Ok(is_assigned(verdict))
}

// What a second assignment costs, and how much more than the first one, if that fits.
fn cost_of(
    alloc: Global,
    lists: &CostLists<'_>,
    objects: &[Object],
    other: &[Object],
) -> Result<Option<NextCost>, AllocError>
    requires objects { AreListed lists.now.rows objects.now }
    requires other { AreListed lists.now.rows other.now }
    ensures { IfOk result (λ found. IfSome found (CostsMore lists.now objects.now other.now)) }
{
    let first = lists.total(alloc, objects)?;
    let total = lists.total(alloc, other)?;
    match more_by(lists.sense(), first, total) {
        Some(margin) => Ok(Some(NextCost { total, margin })),
        None => Ok(None),
    }
}

// What another plan costs, if ranks and further lists of prices show that it is a next best one.
fn next_cost(
    alloc: Global,
    lists: &CostLists<'_>,
    objects: &[Object],
    prices: &[Price],
    shown: &Shown,
    other: &[Object],
) -> Result<Option<NextCost>, AllocError>
    requires { IsOptimum lists.now objects.now prices.now }
    ensures { IfOk result (λ found. IfSome found (IsNext lists.now objects.now other.now)) }
{
    // These calls show the prover what ranks mean.
    let _persons = lists.persons();
    ranks_mean_next();
    if !is_another(alloc, lists, objects, prices, other)? {
        return Ok(None);
    }
    let Some(cost) = cost_of(alloc, lists, objects, other)? else {
        return Ok(None);
    };
    let (ranks, others) = (shown.ranks.as_slice(), shown.others.as_slice());
    let (count, margin) = (shown.count, cost.margin);
    if !are_ranked(
        alloc, lists, objects, prices, ranks, count, others, true, margin,
    )? {
        return Ok(None);
    }
    Ok(Some(cost))
}

// Whether ranks and further lists of prices show that there is no other plan.
fn is_alone(
    alloc: Global,
    lists: &CostLists<'_>,
    objects: &[Object],
    prices: &[Price],
    shown: &Shown,
) -> Result<bool, AllocError>
    requires { IsOptimum lists.now objects.now prices.now }
    ensures { IfOk result (λ is. IsTrue is → IsOnlyAssignment lists.now.rows objects.now) }
{
    // These calls show the prover what ranks mean.
    let _persons = lists.persons();
    ranks_mean_alone();
    let (ranks, others) = (shown.ranks.as_slice(), shown.others.as_slice());
    let count = shown.count;
    are_ranked(
        alloc, lists, objects, prices, ranks, count, others, true, NO_BOUND,
    )
}

// Searches for the next best plan, and checks what was found.
fn next_of(
    alloc: Global,
    lists: &CostLists<'_>,
    objects: &[Object],
    prices: &[Price],
    arc_scans: u64,
) -> Result<Next, AllocError>
    requires { IsOptimum lists.now objects.now prices.now }
    ensures { IfOk result (IsNextAnswer lists.now objects.now prices.now) }
{
    let Found { other, shown } = find_other(alloc, lists, objects, prices, NO_BOUND, arc_scans)?;
    let Some(shown) = shown else {
        return Ok(Next::Open);
    };
    if let Some(other) = other {
        let found = next_cost(alloc, lists, objects, prices, &shown, other.as_slice())?;
        return match found {
            Some(cost) => Ok(Next::Another(other, cost)),
            None => Ok(Next::Open),
        };
    }
    if is_alone(alloc, lists, objects, prices, &shown)? {
        return Ok(Next::Alone);
    }
    Ok(Next::Open)
}

/// The next best plan after the one that these objects and prices are.
pub fn next_after(
    alloc: Global,
    lists: &CostLists<'_>,
    objects: &[Object],
    prices: &[Price],
    arc_scans: u64,
) -> Result<Next, AllocError>
    ensures { IfOk result (IsNextAnswer lists.now objects.now prices.now) }
{
    let verdict = check(alloc, lists, objects, prices)?;
    if verdict != Verdict::Yes {
        return Ok(Next::Refused(verdict));
    }
    next_of(alloc, lists, objects, prices, arc_scans)
}
