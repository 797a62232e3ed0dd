// Whether plans are the first of all.
ghost use Rattle.std.specs.Prelude.{◌≡◌, ◌<◌, ◌-◌, ℕ, List, IfOk, IfSome, IsTrue, length};
ghost use Rattle.assign_core.specs.Assignment.{total};
ghost use Rattle.cost_lists.specs.Exact.{IsOptimum};
ghost use Rattle.cost_lists.specs.ListedCosts.{ListedCosts};
ghost use Rattle.ranking_checker.specs.Ranking.{AreAll, AreCosts, AreFirst, plan_of};
ghost use Rattle.ranking_checker.specs.inside.Bases.{IsBase};
ghost use Rattle.ranking_checker.specs.inside.Core.{AreCore};
ghost use Rattle.ranking_checker.specs.inside.Parts.{AreLeast, AreTotals, HaveParts, IsShown, Rise, bound_of, margin_at};
ghost use Rattle.ranking_checker.specs.inside.Trees.{IsTree};

use super::low::{Base, core_of};
use super::pairs::Pair;
use super::part::{Showing, is_shown};
use super::totals::{more_by, rise, totals_of};
use super::tree::{Tree, have_parts, is_tree};
use assign_core::{Cost, Sense};
use cost_lists::{CostLists, Object, Person, Price};
use plan_checker::{NO_BOUND, Rank};
use std::alloc::{AllocError, Global};

/// Plans in the order of their costs, one after the other, with what is said to show that they are the
/// first of all.
///
/// Each plan but the first has a parent, the place of an earlier one, from 0, and a person, from 1, at
/// which the two part; the first one's aren't read. An assignment falls into the part of one plan: it
/// starts in that of the first, and goes over to that of each next plan whose parent it is in, if its
/// object for that plan's person isn't the parent's. For each part there are prices and ranks of all
/// objects, and so many further lists of prices, for the pairs that the part's assignments can have.
#[derive(Clone, Copy)]
pub struct RankedPlans<'a> {
    /// How many plans there are.
    pub count: usize,
    /// An object for each person, of each plan.
    pub plans: &'a [Object],
    /// The parent of each plan.
    pub parents: &'a [u32],
    /// The person of each plan.
    pub persons: &'a [Person],
    /// A price for each object, of each plan.
    pub prices: &'a [Price],
    /// A rank for each object, of each plan.
    pub ranks: &'a [Rank],
    /// How many further lists of prices each plan has.
    pub lists: &'a [u32],
    /// The further lists of prices, plan by plan.
    pub others: &'a [Price],
}

// Some elements of a list from a place on, if there are so many.
fn cut<T>(list: &[T], start: usize, count: usize) -> Option<&[T]> {
    let end = start.checked_add(count)?;
    list.get(start..end)
}

// What is said of the plan at a place, whose further lists begin at some place.
fn showing_at<'a>(
    ranking: RankedPlans<'a>,
    m: usize,
    place: usize,
    start: usize,
) -> Option<Showing<'a>> {
    let count = *ranking.lists.get(place)? as usize;
    let from = place.checked_mul(m)?;
    let prices = cut(ranking.prices, from, m)?;
    let ranks = cut(ranking.ranks, from, m)?;
    let others = cut(ranking.others, start, count.checked_mul(m)?)?;
    Some(Showing {
        prices,
        ranks,
        count,
        others,
    })
}

// How much more the last plan costs than the one at a place, if that fits; without a bound where there
// are no others.
fn margin_of(sense: Sense, is_all: bool, totals: &[Cost], place: usize) -> Option<Cost>
    requires { place < length totals.now }
    ensures { IfSome result (λ margin. margin ≡ margin_at sense is_all totals.now place) }
{
    if is_all {
        return Some(NO_BOUND);
    }
    more_by(sense, totals[place], totals[totals.len() - 1])
}

// The bound of reduced costs that plans have which cost at most so much more than the best; there is
// none for all plans.
fn bound_for(is_all: bool, excess: Cost) -> Option<Cost>
    ensures { IfSome result (λ bound. bound ≡ bound_of is_all excess) }
{
    if is_all {
        return Some(NO_BOUND);
    }
    excess.checked_add(1)
}

// Whether each plan is shown to be the best of its part, and each other assignment of it to cost at
// least as much as the last plan.
fn are_shown(
    alloc: Global,
    lists: &CostLists<'_>,
    base: Base<'_>,
    core: &[Pair],
    tree: Tree<'_>,
    ranking: RankedPlans<'_>,
    totals: &[Cost],
    is_all: bool,
) -> Result<bool, AllocError>
    requires core { AreCore base.bound lists.now base.objects.now base.prices.now core.now }
    requires tree { IsTree tree }
    requires persons { tree.n ≡ length lists.now.rows }
    requires totals { length totals.now ≡ tree.count }
    ensures { let b = base.entry in IfOk result (λ yes. IsTrue yes → (t : ℕ) → t < tree.entry.count
        → IsShown b.bound lists.now b.objects.now b.prices.now tree.entry t
        (margin_at lists.now.sense is_all totals.now t)) }
{
    let m = lists.objects() as usize;
    let sense = lists.sense();
    let mut start: usize = 0;
    for t in 0..tree.count {
        let Some(showing) = showing_at(ranking, m, t, start) else {
            return Ok(false);
        };
        let Some(margin) = margin_of(sense, is_all, totals, t) else {
            return Ok(false);
        };
        if !is_shown(alloc, lists, base, core, tree, t, showing, margin)? {
            return Ok(false);
        }
        start = start.saturating_add(showing.others.len());
    }
    Ok(true)
}

// Whether plans of these costs that rise are shown to be the first, or all.
fn are_least(
    alloc: Global,
    lists: &CostLists<'_>,
    objects: &[Object],
    prices: &[Price],
    tree: Tree<'_>,
    ranking: RankedPlans<'_>,
    totals: &[Cost],
    is_all: bool,
) -> Result<bool, AllocError>
    requires optimum { IsOptimum lists.now objects.now prices.now }
    requires tree { IsTree tree }
    requires persons { tree.n ≡ length lists.now.rows }
    requires parts { HaveParts tree }
    requires totals { AreTotals lists.now.rows tree totals.now }
    requires rise { Rise lists.now.sense totals.now }
    ensures { let l = lists.now in IfOk result
        (λ yes. IsTrue yes → AreLeast l.sense l.rows tree.entry is_all) }
{
    // This call shows the prover that the costs are in range.
    let _persons = lists.persons();
    let first = lists.total(alloc, objects)?;
    let sense = lists.sense();
    let Some(excess) = more_by(sense, first, totals[totals.len() - 1]) else {
        return Ok(false);
    };
    if !is_all && excess <= 0 {
        return Ok(true);
    }
    let Some(bound) = bound_for(is_all, excess) else {
        return Ok(false);
    };
    let own = lists.own_costs(alloc, objects)?;
    let base = Base {
        sense,
        own: own.as_slice(),
        objects,
        prices,
        bound,
    };
    let core = core_of(alloc, lists, base)?;
    let core = core.as_slice();
    let are_least = are_shown(alloc, lists, base, core, tree, ranking, totals, is_all)?;
    Ok(are_least)
}

/// The costs of plans, if they are shown to be the first of all assignments, in the order of their costs;
/// with `is_all`, if they are shown to be all. The objects and prices are an optimum. All lists may have
/// any length, and hold any numbers.
///
/// The time is linear in the costs, in the square of the plans and in the persons and listed pairs of
/// each, and for each plan in the pairs
/// of the core, those whose reduced cost is at most what the last plan costs more than the best (all
/// pairs with `is_all`), times the pairs that its part closes, and in its further lists for each of
/// these pairs. The memory is up to 32 bytes a pair of the core and 48 a pair of a part, 8 a plan, 20 a
/// person and 5 an object.
///
/// # Errors
/// `AllocError` if memory is refused.
pub fn are_first(
    alloc: Global,
    lists: &CostLists<'_>,
    objects: &[Object],
    prices: &[Price],
    ranking: RankedPlans<'_>,
    is_all: bool,
) -> Result<Option<Vec<Cost>>, AllocError>
    requires { IsOptimum lists.now objects.now prices.now }
    ensures first { let l = lists.now in let r = ranking.entry in IfOk result (λ found. IfSome found
        (λ totals. AreFirst l.sense l.rows r.count r.plans.now)) }
    ensures all { let l = lists.now in let r = ranking.entry in IfOk result (λ found. IfSome found
        (λ totals. IsTrue is_all → AreAll l.sense l.rows r.count r.plans.now)) }
    ensures costs { let l = lists.now in let r = ranking.entry in IfOk result (λ found. IfSome found
        (λ totals. AreCosts l.rows r.count r.plans.now totals.items)) }
{
    let tree = Tree {
        n: lists.persons() as usize,
        count: ranking.count,
        plans: ranking.plans,
        parents: ranking.parents,
        persons: ranking.persons,
    };
    if !is_tree(tree) || !have_parts(tree) {
        return Ok(None);
    }
    let Some(totals) = totals_of(alloc, lists, tree)? else {
        return Ok(None);
    };
    if !rise(lists.sense(), totals.as_slice()) {
        return Ok(None);
    }
    let costs = totals.as_slice();
    if are_least(alloc, lists, objects, prices, tree, ranking, costs, is_all)? {
        return Ok(Some(totals));
    }
    Ok(None)
}
