// What plans cost.
ghost use Rattle.std.specs.Prelude.{◌≡◌, ◌≢◌, ◌↔◌, ◌-ℤ◌, ◌<◌, ◌+◌, ℕ, List, IfOk, IfSome, IsTrue, length, All};
ghost use Rattle.assign_core.specs.Assignment.{IsAssignment, IsNoWorse, total};
ghost use Rattle.cost_lists.specs.Own.{minimised};
ghost use Rattle.ranking_checker.specs.inside.Parts.{AreTotals, Rise};
ghost use Rattle.ranking_checker.specs.inside.Trees.{IsTree};

use super::tree::{Tree, plan_at};
use assign_core::{Cost, Sense};
use cost_lists::{CostLists, Object, UNLISTED};
use dual_checker::first_given_twice;
use std::alloc::{AllocError, Global};

// Whether no cost is the mark of an unlisted object.
fn are_listed(own: &[Cost]) -> bool
    ensures { IsTrue result ↔ All (λ cost. cost ≢ UNLISTED) own.now }
{
    own.iter().all(|cost| *cost != UNLISTED)
}

// The cost of objects, if they are an assignment.
fn total_of(
    alloc: Global,
    lists: &CostLists<'_>,
    plan: &[Object],
) -> Result<Option<Cost>, AllocError>
    requires { length plan.now ≡ length lists.now.rows }
    ensures assigned { IfOk result (λ found. IfSome found (λ cost. IsAssignment lists.now.rows plan.now)) }
    ensures cost { IfOk result (λ found. IfSome found (λ cost. cost ≡ total lists.now.rows plan.now)) }
{
    // This call shows the prover that there are few enough persons.
    let _persons = lists.persons();
    let m = lists.objects() as usize;
    let own = lists.own_costs(alloc, plan)?;
    if !are_listed(own.as_slice()) {
        return Ok(None);
    }
    let mut counts = vec![in alloc; 0u32; m]?;
    if let Some(_) = first_given_twice(counts.as_mut_slice(), plan) {
        return Ok(None);
    }
    Ok(Some(lists.total(alloc, plan)?))
}

// The costs of plans, if these are assignments.
pub fn totals_of(
    alloc: Global,
    lists: &CostLists<'_>,
    tree: Tree<'_>,
) -> Result<Option<Vec<Cost>>, AllocError>
    requires tree { IsTree tree }
    requires persons { tree.n ≡ length lists.now.rows }
    ensures { IfOk result
        (λ found. IfSome found (λ totals. AreTotals lists.now.rows tree.entry totals.items)) }
{
    let mut totals = Vec::new(alloc);
    for t in 0..tree.count {
        let Some(total) = total_of(alloc, lists, plan_at(tree, t))? else {
            return Ok(None);
        };
        totals.push(total)?;
    }
    Ok(Some(totals))
}

// Whether a cost is no worse than another one.
fn is_no_worse(sense: Sense, cost: Cost, other: Cost) -> bool
    ensures { IsTrue result ↔ IsNoWorse sense cost other }
{
    match sense {
        Sense::Min => cost <= other,
        Sense::Max => other <= cost,
    }
}

// Whether no cost is worse than the next one.
pub fn rise(sense: Sense, totals: &[Cost]) -> bool
    ensures { IsTrue result → Rise sense totals.now }
{
    for t in 1..totals.len() {
        if !is_no_worse(sense, totals[t - 1], totals[t]) {
            return false;
        }
    }
    true
}

/// How much more a second sum is than the first one, if that fits; under `Max`, how much less.
pub fn more_by(sense: Sense, first: Cost, second: Cost) -> Option<Cost>
    ensures { IfSome result (λ more. more ≡ minimised sense second -ℤ minimised sense first) }
{
    match sense {
        Sense::Min => second.checked_sub(first),
        Sense::Max => first.checked_sub(second),
    }
}
