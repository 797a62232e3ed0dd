// The pairs of a part, and what shows that its plan is the best of it.
ghost use Rattle.std.specs.Prelude.{◌≡◌, ◌≢◌, ◌<◌, ◌-◌, ◌*◌, ℕ, ℤ, List, [], true, false, map, IfOk, IsTrue, length, All};
ghost use Rattle.assign_core.specs.Numbered.{IsNumber};
ghost use Rattle.cost_lists.specs.Exact.{IsOptimum};
ghost use Rattle.cost_lists.specs.ListedCosts.{AreInLimits};
ghost use Rattle.plan_checker.specs.Ranks.{AreRanked};
ghost use Rattle.ranking_checker.specs.Ranking.{plan_of};
ghost use Rattle.ranking_checker.specs.inside.Adding.{Adds, AddsFrom};
ghost use Rattle.ranking_checker.specs.inside.Core.{AreCore, AreGiven, pair_at};
ghost use Rattle.ranking_checker.specs.inside.Parts.{IsShown};
ghost use Rattle.ranking_checker.specs.inside.Trees.{CanHave, IsTree, Obey, object_in};

use super::limits::{Closed, Limits, limits_of};
use super::low::Base;
use super::pairs::Pair;
use super::tree::{Tree, plan_at};
use assign_core::Cost;
use cost_lists::{CostLists, Object, Pairs, Person, Price};
use exact_checker::{Verdict, check};
use plan_checker::{Rank, are_ranked};
use std::alloc::{AllocError, Global};

// Prices and ranks with which a plan is the best of its part, and further lists of prices.
#[derive(Clone, Copy)]
pub struct Showing<'a> {
    pub prices: &'a [Price],
    pub ranks: &'a [Rank],
    pub count: usize,
    pub others: &'a [Price],
}

// Pairs as three lists.
#[derive(Drop)]
struct Columns {
    persons: Vec<Person>,
    objects: Vec<Object>,
    costs: Vec<Cost>,
}

// Whether a pair is closed.
#[inline(always)]
fn is_closed(closed: &[Closed], person: Person, object: Object) -> bool
    ensures { (ys : List ℕ) → All (λ c. object_in ys c.person ≢ c.object) closed.now
        → object_in ys person ≡ object → result ≡ false }
{
    for one in closed {
        if one.person == person && one.object == object {
            return true;
        }
    }
    false
}

// Whether an assignment of a part may have a pair.
#[inline(always)]
fn may_have(limits: &Limits, pair: Pair) -> bool
    requires { IsNumber (length limits.now.kept.items) pair.person }
    ensures { CanHave limits.now.kept.items limits.now.closed.items pair → IsTrue result }
{
    let kept = limits.kept[pair.person as usize - 1];
    (kept == 0 || kept == pair.object)
        && !is_closed(limits.closed.as_slice(), pair.person, pair.object)
}

// Adds a pair that an assignment of a part may have.
#[inline(always)]
fn add_open(pairs: &mut Vec<Pair>, limits: &Limits, pair: Pair) -> Result<(), AllocError>
    requires { IsNumber (length limits.now.kept.items) pair.person }
    ensures { IfOk result (λ _. Adds (CanHave limits.now.kept.items limits.now.closed.items) pair
        pairs.old.items pairs.new.items) }
{
    if may_have(limits, pair) {
        pairs.push(pair)?;
    }
    Ok(())
}

// Those of the pairs that an assignment of a part may have.
fn pairs_of(alloc: Global, core: &[Pair], limits: &Limits) -> Result<Vec<Pair>, AllocError>
    requires { All (λ p. IsNumber (length limits.now.kept.items) p.person) core.now }
    ensures { IfOk result (λ pairs. AddsFrom (CanHave limits.now.kept.items limits.now.closed.items)
        (pair_at core.now) (length core.now) [] pairs.items) }
{
    let mut pairs = Vec::with_capacity(alloc, core.len())?;
    for k in 0..core.len() {
        add_open(&mut pairs, limits, core[k])?;
    }
    Ok(pairs)
}

// Pairs as three lists.
fn columns_of(alloc: Global, pairs: &[Pair]) -> Result<Columns, AllocError>
    ensures persons { IfOk result (λ c. c.persons.items ≡ map (λ p. p.person) pairs.now) }
    ensures objects { IfOk result (λ c. c.objects.items ≡ map (λ p. p.object) pairs.now) }
    ensures costs { IfOk result (λ c. c.costs.items ≡ map (λ p. p.cost) pairs.now) }
{
    let persons = pairs.iter().map(|pair| pair.person).collect(alloc)?;
    let objects = pairs.iter().map(|pair| pair.object).collect(alloc)?;
    let costs = pairs.iter().map(|pair| pair.cost).collect(alloc)?;
    Ok(Columns {
        persons,
        objects,
        costs,
    })
}

// Whether prices and ranks show that a plan is the best, and each other one costs so much more.
fn is_best_by(
    alloc: Global,
    part: &CostLists<'_>,
    plan: &[Object],
    showing: Showing<'_>,
    margin: Cost,
) -> Result<bool, AllocError>
    ensures limits { AreInLimits part.now }
    ensures optimum { let s = showing.entry in IfOk result
        (λ yes. IsTrue yes → IsOptimum part.now plan.now s.prices.now) }
    ensures ranked { let s = showing.entry in IfOk result (λ yes. IsTrue yes
        → AreRanked true margin part.now plan.now s.prices.now s.ranks.now s.count s.others.now) }
{
    let _persons = part.persons();
    let verdict = check(alloc, part, plan, showing.prices)?;
    if verdict != Verdict::Yes {
        return Ok(false);
    }
    let Showing {
        prices,
        ranks,
        count,
        others,
    } = showing;
    are_ranked(
        alloc, part, plan, prices, ranks, count, others, true, margin,
    )
}

// Whether it is shown that a plan is the best of its part, and each other assignment of the part costs
// so much more.
pub fn is_shown(
    alloc: Global,
    lists: &CostLists<'_>,
    base: Base<'_>,
    core: &[Pair],
    tree: Tree<'_>,
    place: usize,
    showing: Showing<'_>,
    margin: Cost,
) -> Result<bool, AllocError>
    requires core { AreCore base.bound lists.now base.objects.now base.prices.now core.now }
    requires tree { IsTree tree }
    requires persons { tree.n ≡ length lists.now.rows }
    requires place { place < tree.count }
    ensures { let b = base.entry in IfOk result (λ yes. IsTrue yes
        → IsShown b.bound lists.now b.objects.now b.prices.now tree.entry place margin) }
{
    let (n, m) = (lists.persons(), lists.objects());
    let limits = limits_of(alloc, tree, place)?;
    let pairs = pairs_of(alloc, core, &limits)?;
    let columns = columns_of(alloc, pairs.as_slice())?;
    let pairs = Pairs {
        persons: columns.persons.as_slice(),
        objects: columns.objects.as_slice(),
        costs: columns.costs.as_slice(),
    };
    let part = CostLists::sparse(lists.sense(), n, m, pairs);
    let is_best = is_best_by(alloc, &part, plan_at(tree, place), showing, margin)?;
    Ok(is_best)
}
