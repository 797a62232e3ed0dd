// Whether ranks rise in rows of costs.
ghost use Rattle.std.specs.Prelude.{◌≡◌, ◌↔◌, ◌≤◌, ◌+◌, ◌+ℤ◌, ◌≤ℤ◌, ℕ, IsTrue, length, All};
ghost use Rattle.assign_core.specs.Numbered.{IsNumber};
ghost use Rattle.assign_core.specs.Rows.{IsCost};
ghost use Rattle.cost_lists.specs.Exact.{IsPriceInLimits};
ghost use Rattle.cost_lists.specs.Own.{minimised};
ghost use Rattle.cost_lists.specs.Source.{AreCosts};
ghost use Rattle.plan_checker.specs.inside.Rises.{AllReach, IsPlan, IsSum, PartRises, RowRises, RowsRise, sum_at};

use super::rises::{Plan, is_below, pair_rises};
use assign_core::{Cost, Sense};
use cost_lists::{GREATEST_NUMBER, Person, Price, part};
use exact_checker::sum_of;

// How many costs of a row are looked at together.
const BLOCK: usize = 32;

// The sum of a person's own cost and price.
fn own_sum(plan: Plan<'_>, person: Person) -> Cost
    requires { (n m : ℕ) × IsPlan n m plan × IsNumber n person }
    ensures sum { result ≡ sum_at plan.entry person }
    ensures range { IsSum result }
{
    let place = person as usize - 1;
    let own = plan.objects[place];
    sum_of(Sense::Min, plan.own[place], plan.prices[own as usize - 1])
}

// Whether the sum of a cost and a price is above an own one by the bound.
#[inline(always)]
fn reaches(sense: Sense, cost: Cost, price: Price, sum: Cost, bound: Cost) -> bool
    requires cost { IsCost cost }
    requires price { IsPriceInLimits price }
    requires sum { IsSum sum }
    ensures { IsTrue result → (sum +ℤ bound) ≤ℤ (minimised sense cost +ℤ price) }
{
    !is_below(sum_of(sense, cost, price), sum, bound)
}

// Whether all sums of a block are. It reads on after one that isn't, so that several are looked at in
// one step.
fn all_reach(plan: Plan<'_>, row: &[Cost], from: usize, sum: Cost) -> bool
    requires plan { (n : ℕ) × IsPlan n (length row.now) plan }
    requires few { length row.now ≤ GREATEST_NUMBER }
    requires costs { All IsCost row.now }
    requires sum { IsSum sum }
    requires room { from + BLOCK ≤ length row.now }
    ensures { IsTrue result → AllReach plan.entry row.now sum from (from + BLOCK) }
{
    let mut all = true;
    for j in from..from + BLOCK {
        all = reaches(plan.sense, row[j], plan.prices[j], sum, plan.bound) & all;
    }
    all
}

// Whether the ranks of a person's row rise from one place up to another.
fn part_rises(plan: Plan<'_>, person: Person, row: &[Cost], from: usize, to: usize) -> bool
    requires plan { (n : ℕ) × IsPlan n (length row.now) plan × IsNumber n person }
    requires few { length row.now ≤ GREATEST_NUMBER }
    requires costs { All IsCost row.now }
    requires to { to ≤ length row.now }
    ensures { IsTrue result ↔ PartRises plan.entry person row.now from to }
{
    for j in from..to {
        if !pair_rises(plan, person, j as u32 + 1, row[j]) {
            return false;
        }
    }
    true
}

// The same of a block. Mostly there is no more to read of it than the costs.
fn block_rises(plan: Plan<'_>, person: Person, row: &[Cost], from: usize, sum: Cost) -> bool
    requires plan { (n : ℕ) × IsPlan n (length row.now) plan × IsNumber n person }
    requires few { length row.now ≤ GREATEST_NUMBER }
    requires costs { All IsCost row.now }
    requires sum { sum ≡ sum_at plan person }
    requires range { IsSum sum }
    requires room { from + BLOCK ≤ length row.now }
    ensures { IsTrue result ↔ PartRises plan.entry person row.now from (from + BLOCK) }
{
    if all_reach(plan, row, from, sum) {
        return true;
    }
    part_rises(plan, person, row, from, from + BLOCK)
}

// Whether the ranks of a person's row rise.
fn row_rises(plan: Plan<'_>, person: Person, row: &[Cost]) -> bool
    requires plan { (n : ℕ) × IsPlan n (length row.now) plan × IsNumber n person }
    requires few { length row.now ≤ GREATEST_NUMBER }
    requires costs { All IsCost row.now }
    ensures { IsTrue result ↔ RowRises plan.entry person row.now }
{
    let sum = own_sum(plan, person);
    let mut at = 0;
    while row.len() - at >= BLOCK {
        if !block_rises(plan, person, row, at, sum) {
            return false;
        }
        at += BLOCK;
    }
    part_rises(plan, person, row, at, row.len())
}

// Whether the ranks of all rows rise.
pub fn rows_rise(plan: Plan<'_>, costs: &[Cost]) -> bool
    requires plan { IsPlan (length plan.own.now) (length plan.prices.now) plan }
    requires persons { length plan.own.now ≤ GREATEST_NUMBER }
    requires objects { length plan.prices.now ≤ GREATEST_NUMBER }
    requires costs { AreCosts (length plan.own.now) (length plan.prices.now) costs.now }
    ensures { IsTrue result ↔ RowsRise plan.entry costs.now }
{
    let m = plan.prices.len();
    for i in 0..plan.own.len() {
        if !row_rises(plan, i as u32 + 1, part(costs, i, m)) {
            return false;
        }
    }
    true
}
