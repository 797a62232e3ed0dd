// The core: the pairs whose reduced costs by an optimum's prices are below a bound.
ghost use Rattle.std.specs.Prelude.{◌≡◌, ◌↔◌, ◌≤◌, ◌+ℤ◌, ◌<ℤ◌, ℕ, List, [], IfOk, IsTrue, length, All};
ghost use Rattle.assign_core.specs.Numbered.{IsNumber};
ghost use Rattle.assign_core.specs.Rows.{IsCost};
ghost use Rattle.cost_lists.specs.Exact.{IsOptimum};
ghost use Rattle.cost_lists.specs.Own.{AreOwnCosts};
ghost use Rattle.cost_lists.specs.Source.{AreCosts, ArePairs};
ghost use Rattle.plan_checker.specs.inside.Rises.{IsSum};
ghost use Rattle.ranking_checker.specs.inside.Adding.{Adds, AddsFrom, AreOfRows};
ghost use Rattle.ranking_checker.specs.inside.Bases.{IsBase, IsLow, cut_pair_at, listed_pair, row_pair};
ghost use Rattle.ranking_checker.specs.inside.Core.{AreCore, pair};

use super::pairs::Pair;
use assign_core::{Cost, Sense};
use cost_lists::{CostLists, GREATEST_NUMBER, Object, Pairs, Person, Price, Source, part};
use exact_checker::sum_of;
use std::alloc::{AllocError, Global};

// An optimum, and a bound of reduced costs. The own costs are turned, so that less is better.
#[derive(Clone, Copy)]
pub struct Base<'a> {
    pub sense: Sense,
    pub own: &'a [Cost],
    pub objects: &'a [Object],
    pub prices: &'a [Price],
    pub bound: Cost,
}

// Whether a sum of cost and price is below another one and the bound.
fn is_below(sum: Cost, own_sum: Cost, bound: Cost) -> bool
    requires sum { IsSum sum }
    requires own_sum { IsSum own_sum }
    ensures { IsTrue result ↔ (sum <ℤ (own_sum +ℤ bound)) }
{
    let reduced = sum - own_sum;
    reduced < bound
}

// Whether the reduced cost of a pair is below the bound.
fn is_low(base: Base<'_>, person: Person, object: Object, cost: Cost) -> bool
    requires base { (n m : ℕ) × IsBase n m base × IsNumber n person × IsNumber m object }
    requires cost { IsCost cost }
    ensures { IsTrue result ↔ IsLow base.entry (pair person object cost) }
{
    let place = person as usize - 1;
    let own = base.objects[place];
    let sum = sum_of(base.sense, cost, base.prices[object as usize - 1]);
    let own_sum = sum_of(Sense::Min, base.own[place], base.prices[own as usize - 1]);
    is_below(sum, own_sum, base.bound)
}

// Adds a pair whose reduced cost is below the bound.
fn add_low(
    pairs: &mut Vec<Pair>,
    base: Base<'_>,
    person: Person,
    object: Object,
    cost: Cost,
) -> Result<(), AllocError>
    requires base { (n m : ℕ) × IsBase n m base × IsNumber n person × IsNumber m object }
    requires cost { IsCost cost }
    ensures { IfOk result
        (λ _. Adds (IsLow base.entry) (pair person object cost) pairs.old.items pairs.new.items) }
{
    if is_low(base, person, object, cost) {
        pairs.push(Pair {
            person,
            object,
            cost,
        })?;
    }
    Ok(())
}

// Adds those of a person's row.
fn add_row(
    pairs: &mut Vec<Pair>,
    base: Base<'_>,
    person: Person,
    row: &[Cost],
) -> Result<(), AllocError>
    requires base { (n : ℕ) × IsBase n (length row.now) base × IsNumber n person }
    requires few { length row.now ≤ GREATEST_NUMBER }
    requires costs { All IsCost row.now }
    ensures { IfOk result (λ _. AddsFrom (IsLow base.entry) (row_pair person row.now)
        (length row.now) pairs.old.items pairs.new.items) }
{
    for j in 0..row.len() {
        add_low(pairs, base, person, j as u32 + 1, row[j])?;
    }
    Ok(())
}

// The core of all costs.
fn core_of_rows(alloc: Global, base: Base<'_>, costs: &[Cost]) -> Result<Vec<Pair>, AllocError>
    requires base { IsBase (length base.own.now) (length base.prices.now) base }
    requires persons { length base.own.now ≤ GREATEST_NUMBER }
    requires objects { length base.prices.now ≤ GREATEST_NUMBER }
    requires costs { AreCosts (length base.own.now) (length base.prices.now) costs.now }
    ensures { let b = base.entry in IfOk result (λ pairs. AreOfRows (IsLow b)
        (cut_pair_at (length b.prices.now) costs.now) (length b.own.now) (length b.prices.now) pairs.items) }
{
    let m = base.prices.len();
    let mut pairs = Vec::new(alloc);
    for i in 0..base.own.len() {
        add_row(&mut pairs, base, i as u32 + 1, part(costs, i, m))?;
    }
    Ok(pairs)
}

// The core of listed pairs.
fn core_of_pairs(alloc: Global, base: Base<'_>, listed: Pairs<'_>) -> Result<Vec<Pair>, AllocError>
    requires base { IsBase (length base.own.now) (length base.prices.now) base }
    requires pairs { ArePairs (length base.own.now) (length base.prices.now) listed }
    ensures { IfOk result (λ pairs. AddsFrom (IsLow base.entry) (listed_pair listed.entry)
        (length listed.entry.persons.now) [] pairs.items) }
{
    let mut pairs = Vec::new(alloc);
    for k in 0..listed.persons.len() {
        let (person, object) = (listed.persons[k], listed.objects[k]);
        add_low(&mut pairs, base, person, object, listed.costs[k])?;
    }
    Ok(pairs)
}

// The core of costs.
pub fn core_of(
    alloc: Global,
    lists: &CostLists<'_>,
    base: Base<'_>,
) -> Result<Vec<Pair>, AllocError>
    requires base { IsBase (length lists.now.rows) lists.now.m base }
    requires sense { base.sense ≡ lists.now.sense }
    requires own { AreOwnCosts lists.now.sense lists.now.rows base.objects.now base.own.now }
    requires optimum { IsOptimum lists.now base.objects.now base.prices.now }
    ensures { let b = base.entry in IfOk result (λ pairs. AreCore b.bound lists.now b.objects.now b.prices.now pairs.items) }
{
    // These calls show the prover that persons and objects are few enough.
    let (_persons, _objects) = (lists.persons(), lists.objects());
    match lists.source() {
        Source::Dense(costs) => Ok(core_of_rows(alloc, base, costs)?),
        Source::Listed(pairs) => Ok(core_of_pairs(alloc, base, pairs)?),
    }
}
