// Whether the objects of an optimum have ranks.
ghost use Rattle.std.specs.Prelude.{◌≡◌, ◌↔◌, ◌*◌, IfOk, IsTrue, false, length, replicate};
ghost use Rattle.cost_lists.specs.Exact.{IsOptimum};
ghost use Rattle.cost_lists.specs.Own.{AreOwnCosts};
ghost use Rattle.plan_checker.specs.Ranks.{AreRanked, ProveOpen, RanksRise};
ghost use Rattle.plan_checker.specs.inside.Rises.{IsPlan};

use super::free::are_free;
use super::further::are_in_limits;
use super::pairs::pairs_rise;
use super::rank::Rank;
use super::rises::Plan;
use super::rows::rows_rise;
use assign_core::Cost;
use cost_lists::{CostLists, Object, Price, Source};
use dual_checker::mark_numbers;
use std::alloc::{AllocError, Global};

// Whether the further lists prove the optimum among the pairs that are open, and ranks rise in
// those that stay open.
fn all_rise(lists: &CostLists<'_>, plan: Plan<'_>) -> bool
    requires plan { IsPlan (length lists.now.rows) lists.now.m plan }
    requires sense { plan.sense ≡ lists.now.sense }
    requires own { AreOwnCosts lists.now.sense lists.now.rows plan.objects.now plan.own.now }
    requires optimum { IsOptimum lists.now plan.objects.now plan.prices.now }
    ensures { let p = plan.entry in IsTrue result
        ↔ (ProveOpen p.bound lists.now p.objects.now p.prices.now p.count p.others.now
        × RanksRise p.is_strict p.bound lists.now p.objects.now p.prices.now p.ranks.now p.count p.others.now) }
{
    // These calls show the prover that persons and objects are few enough.
    let (_persons, _objects) = (lists.persons(), lists.objects());
    match lists.source() {
        Source::Dense(costs) => rows_rise(plan, costs),
        Source::Listed(pairs) => pairs_rise(plan, pairs),
    }
}

// Whether ranks of the right number are ranks of an optimum's objects. No object is marked at
// first.
fn ranked_by(owned: &mut [bool], lists: &CostLists<'_>, plan: Plan<'_>) -> bool
    requires owned { owned.old ≡ replicate lists.now.m false }
    requires sense { plan.sense ≡ lists.now.sense }
    requires own { AreOwnCosts lists.now.sense lists.now.rows plan.objects.now plan.own.now }
    requires plan { IsPlan (length lists.now.rows) lists.now.m plan }
    requires optimum { IsOptimum lists.now plan.objects.now plan.prices.now }
    ensures { let p = plan.entry in IsTrue result
        ↔ AreRanked p.is_strict p.bound lists.now p.objects.now p.prices.now p.ranks.now p.count p.others.now }
{
    // These calls show the prover that objects are few enough, and the costs in range.
    let (_persons, _objects) = (lists.persons(), lists.objects());
    mark_numbers(owned, plan.objects);
    if !are_free(owned, plan) {
        return false;
    }
    all_rise(lists, plan)
}

// Whether a list has so many parts of m elements.
fn has_parts(length: usize, count: usize, m: usize) -> bool
    ensures { IsTrue result ↔ (length ≡ count * m) }
{
    count.checked_mul(m) == Some(length)
}

/// Whether these are ranks of the objects of an optimum below a bound, strict ones if that is
/// wanted, with so many further lists of prices. All lists may have any length, and hold any
/// numbers.
///
/// The time is linear in the costs, and in the further lists for each pair of the core; the memory
/// is 8 bytes a person and 1 an object.
///
/// # Errors
/// `AllocError` if memory is refused.
pub fn are_ranked(
    alloc: Global,
    lists: &CostLists<'_>,
    objects: &[Object],
    prices: &[Price],
    ranks: &[Rank],
    count: usize,
    others: &[Price],
    is_strict: bool,
    bound: Cost,
) -> Result<bool, AllocError>
    requires { IsOptimum lists.now objects.now prices.now }
    ensures { IfOk result (λ ranked. IsTrue ranked
        ↔ AreRanked is_strict bound lists.now objects.now prices.now ranks.now count others.now) }
{
    // This call shows the prover that the costs are in range.
    let _persons = lists.persons();
    let m = lists.objects() as usize;
    if ranks.len() != m || !has_parts(others.len(), count, m) || !are_in_limits(others) {
        return Ok(false);
    }
    let own = lists.own_costs(alloc, objects)?;
    let mut owned = vec![in alloc; false; m]?;
    let plan = Plan {
        sense: lists.sense(),
        own: own.as_slice(),
        objects,
        prices,
        ranks,
        count,
        others,
        is_strict,
        bound,
    };
    Ok(ranked_by(owned.as_mut_slice(), lists, plan))
}
