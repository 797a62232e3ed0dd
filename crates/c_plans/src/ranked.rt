// Proved answers to which plans are the first of all.
ghost use Rattle.std.specs.Prelude.{◌≡◌, ◌<◌, ◌*◌, ℕ, IfOk, IfSome, IsTrue, length};
ghost use Rattle.cost_lists.specs.Exact.{IsOptimum};
ghost use Rattle.ranking_checker.specs.Ranking.{AreAll, AreCosts, AreFirst};
ghost use Rattle.c_plans.specs.RankedAnswers.{IsRankedAnswer};

use assign_core::Cost;
use cost_lists::{CostLists, Object, Price};
use exact_checker::{Verdict, check};
use plan_search::{Ranking, find_ranking};
use ranking_checker::{RankedPlans, are_first};
use std::alloc::{AllocError, Global};

/// Which plans are the first of all.
#[derive(Drop)]
pub enum Ranked {
    /// The prices don't prove the plan.
    Refused(Verdict),
    /// So many plans as were asked for, one after the other, and what each costs.
    First(Vec<Object>, Vec<Cost>),
    /// Fewer plans, which are all, and what each costs.
    All(Vec<Object>, Vec<Cost>),
    /// None were shown.
    Open,
}

// The costs of the plans that a search found, if they are shown to be the first of all, or all.
fn costs_of(
    alloc: Global,
    lists: &CostLists<'_>,
    objects: &[Object],
    prices: &[Price],
    found: &Ranking,
    is_all: bool,
) -> Result<Option<Vec<Cost>>, AllocError>
    requires { IsOptimum lists.now objects.now prices.now }
    ensures first { let l = lists.now in let f = found.now in IfOk result (λ shown. IfSome shown
        (λ costs. AreFirst l.sense l.rows f.count f.plans.items)) }
    ensures all { let l = lists.now in let f = found.now in IfOk result (λ shown. IfSome shown
        (λ costs. IsTrue is_all → AreAll l.sense l.rows f.count f.plans.items)) }
    ensures costs { let l = lists.now in let f = found.now in IfOk result (λ shown. IfSome shown
        (λ costs. AreCosts l.rows f.count f.plans.items costs.items)) }
{
    let plans = RankedPlans {
        count: found.count,
        plans: found.plans.as_slice(),
        parents: found.parents.as_slice(),
        persons: found.persons.as_slice(),
        prices: found.prices.as_slice(),
        ranks: found.ranks.as_slice(),
        lists: found.lists.as_slice(),
        others: found.others.as_slice(),
    };
    let costs = are_first(alloc, lists, objects, prices, plans, is_all)?;
    Ok(costs)
}

// Checks what a search found, if it is so many plans, or fewer that are to be all.
fn checked(
    alloc: Global,
    lists: &CostLists<'_>,
    objects: &[Object],
    prices: &[Price],
    count: usize,
    found: Ranking,
) -> Result<Ranked, AllocError>
    requires { IsOptimum lists.now objects.now prices.now }
    ensures { IfOk result (IsRankedAnswer lists.now objects.now prices.now count) }
{
    if found.count == count {
        let Some(costs) = costs_of(alloc, lists, objects, prices, &found, false)? else {
            return Ok(Ranked::Open);
        };
        return Ok(Ranked::First(found.plans, costs));
    }
    if found.count > count || !found.is_all {
        return Ok(Ranked::Open);
    }
    let Some(costs) = costs_of(alloc, lists, objects, prices, &found, true)? else {
        return Ok(Ranked::Open);
    };
    Ok(Ranked::All(found.plans, costs))
}

/// The first so many plans in the order of their costs, after checking the best one that these objects
/// and prices are.
pub fn ranked_after(
    alloc: Global,
    lists: &CostLists<'_>,
    objects: &[Object],
    prices: &[Price],
    count: usize,
    arc_scans: u64,
) -> Result<Ranked, AllocError>
    ensures { IfOk result (IsRankedAnswer lists.now objects.now prices.now count) }
{
    let verdict = check(alloc, lists, objects, prices)?;
    if verdict != Verdict::Yes {
        return Ok(Ranked::Refused(verdict));
    }
    let Some(found) = find_ranking(alloc, lists, objects, prices, count, arc_scans)? else {
        return Ok(Ranked::Open);
    };
    let answer = checked(alloc, lists, objects, prices, count, found)?;
    Ok(answer)
}
